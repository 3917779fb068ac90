//! The waits of a shortest run that ends stuck.
//!
//! The waits are those of "The command `hang`" in docs/FORMAT.md: the waits of a circular wait, or the one wait that
//! leads to a workqueue without a rescuer. It takes the time and the memory of the search for them.

ghost use Rattle.std.specs.Prelude.{IfOk};
ghost use Rattle.wq_groups.specs.DeclaredGroups.{declared_waits};
ghost use Rattle.wq_dot.specs.Dotting.{AreShortest};

use std::alloc::{AllocError, Allocator};
use wq_core::Assigned;
use wq_hang::{Answer, Hop, hang};

/// The waits of a shortest run of these workqueues that ends stuck; none if no run does.
pub(crate) fn shortest_waits<A: Allocator + Copy>(
    alloc: A,
    assigned: &Assigned<'_, '_, A>,
) -> Result<Vec<Hop, A>, AllocError>
    ensures { IfOk result (λ hops.
        AreShortest (declared_waits assigned.now.declared) assigned.now.workqueues hops.items) }
{
    match hang(alloc, assigned)? {
        Answer::Safe => Ok(Vec::new(alloc)),
        Answer::Hang(hops, _) => Ok(hops),
    }
}
