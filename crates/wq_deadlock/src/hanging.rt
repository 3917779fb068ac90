//! The run of items that hold up all that wait for them: these items are queued first, then all others, and what is
//! queued is played to its end.

ghost use Rattle.std.specs.Prelude.{◌≡◌, ◌≤◌, length, IfOk};
ghost use Rattle.wq_core.specs.State.{empty_state};
ghost use Rattle.wq_core.specs.Knot.{IsKnot};
ghost use Rattle.wq_deadlock.specs.CircleRun.{IsRunOf};

use crate::playing::play;
use crate::queueing::{make_all, queueings};
use std::alloc::{AllocError, Allocator};
use wq_core::{Core, Step};
use wq_items::ItemId;

/// The run of a machine on which nothing has been queued yet, where the items `first` hold one another up.
pub(crate) fn hanging_run<A: Allocator + Copy>(
    alloc: A,
    mut core: Core<A>,
    first: &[ItemId],
) -> Result<Vec<Step, A>, AllocError>
    requires empty { core.state ≡ empty_state core.wiring }
    requires knot { IsKnot core.wiring first.now }
    requires few { length first.now ≤ 4096 }
    ensures { IfOk result (λ steps. IsRunOf core.wiring first.now steps.items) }
{
    // What holds for every machine.
    let _items = core.items();
    let mut steps = queueings(alloc, &core, first)?;
    make_all(&mut core, steps.as_slice());
    let played = play(alloc, &mut core)?;
    steps.extend_from_slice(played.as_slice())?;
    Ok(steps)
}
