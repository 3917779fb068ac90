//! The text of the run that shows that too few items may move.
//!
//! Its form is that of "Run texts" in docs/FORMAT.md. A call takes time and memory linear in the length of the text.

ghost use Rattle.std.specs.Prelude.{◌≡◌, IfOk};
ghost use Rattle.wq_cert.specs.RunText.{run_text};
ghost use Rattle.wq_groups.specs.DeclaredGroups.{declared_waits};
ghost use Rattle.wq_deadlock.specs.Judging.{IsHang};

use std::alloc::{AllocError, Allocator};
use wq_cert::run_text;
use wq_core::{Assigned, Step};

/// The text of the run by which workqueues hang.
pub(crate) fn text_of_hang<A: Allocator + Copy>(
    alloc: A,
    assigned: &Assigned<'_, '_, A>,
    steps: &[Step],
) -> Result<Vec<u8, A>, AllocError>
    requires { IsHang (declared_waits assigned.now.declared) assigned.now.workqueues steps.now }
    ensures { IfOk result (λ text. text.items ≡ run_text assigned.now.declared.table.names steps.now) }
{
    run_text(alloc, assigned.table(), steps)
}
