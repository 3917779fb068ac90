//! Whether one of the items that must go on can be held up, and else a shortest run by which one is.
//!
//! Where lanes and flushes end and runs begin: a least walk for these items is found, and the run is that of the walk.
//! It takes the time of the search for a least walk.

ghost use Rattle.std.specs.Prelude.{◌<◌, length, IfOk};
ghost use Rattle.std.specs.List.{All};
ghost use Rattle.wq_groups.specs.DeclaredGroups.{declared_waits};
ghost use Rattle.wq_hang.specs.AnswerFor.{IsAnswerFor};

use crate::answer::Held;
use crate::least_for::least_walk_for;
use crate::numbering::lane_numbers;
use crate::running::{pending_for, run_of_walk};
use crate::waits::Waits;
use crate::wires::Wires;
use std::alloc::{AllocError, Allocator};
use wq_core::Assigned;
use wq_items::ItemId;

/// Whether one of these items can be held up on the workqueues of declared groups, and else how that happens soonest.
///
/// `HeldUp` has one of them, and a run that ends stuck for them, such that no run that does has fewer steps, with 0 to
/// 8 helpers of each workqueue; and the waits in it that hold the item up. With unsure flushes it is a run of the
/// reading that keeps those of its waits (`needed_places`): no reading that keeps fewer has such a run, and none that
/// keeps as few has a shorter one. The only error is out of memory (20).
pub fn held_up<A: Allocator + Copy>(
    alloc: A,
    assigned: &Assigned<'_, '_, A>,
    named: &[ItemId],
) -> Result<Held<A>, AllocError>
    requires { All (λ i. i < length assigned.now.declared.table.names) named.now }
    ensures { IfOk result (IsAnswerFor (declared_waits assigned.now.declared) assigned.now.workqueues
        named.now) }
{
    let workqueues = assigned.workqueues();
    // The wait graph, which these are made of, is let go before the search takes memory.
    let numbers = lane_numbers(alloc, assigned)?;
    let wires = Wires::new(alloc, assigned)?;
    let waits = Waits::new(&wires, workqueues.bare());
    match least_walk_for(alloc, &waits, &numbers, named)? {
        Some(walk) => {
            let beside = pending_for(alloc, &waits, walk.named, walk.hops.as_slice())?;
            let steps = run_of_walk(alloc, &waits, walk.hops.as_slice(), beside.as_slice())?;
            Ok(Held::HeldUp(walk.named, walk.hops, steps))
        }
        None => Ok(Held::Safe),
    }
}
