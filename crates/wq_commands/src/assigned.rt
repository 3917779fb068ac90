//! The workqueues of declared groups, as a text has them, or one for each group.
//!
//! Reading takes the time and the memory of reading the text of the workqueues.

ghost use Rattle.std.specs.Prelude.{◌≡◌, length, IfOk, IfErr, Ok};
ghost use Rattle.wq_core.specs.Wiring.{own_lanes};
ghost use Rattle.wq_core.specs.Workqueues.{all_rescued};
ghost use Rattle.wq_cert.specs.Texts.{workqueues_of_text, IsCertFaultOf};

use std::alloc::{AllocError, Allocator};
use wq_cert::{CertError, read_workqueues};
use wq_core::Workqueues;
use wq_deadlock::own_lanes;
use wq_groups::Declaration;

/// A workqueue for each declared group, its own, and each with a rescuer.
///
/// The only error is out of memory (20).
pub fn own_workqueues<A: Allocator + Copy>(
    alloc: A,
    declared: &Declaration<'_, A>,
) -> Result<Workqueues<A>, AllocError>
    ensures workqueues { IfOk result (λ ws. ws ≡ all_rescued (own_lanes declared.now.partition.groups)) }
    ensures assigned { IfOk result (λ ws. length ws.assignment.lane_of_group ≡ declared.now.partition.groups) }
{
    let assignment = own_lanes(alloc, &declared.groups)?;
    Ok(Workqueues::new(assignment, Vec::new(alloc)))
}

/// The workqueues of the declared groups in the text of an assignment.
///
/// The errors are those of `read_workqueues`.
pub fn workqueues_of<A: Allocator + Copy>(
    alloc: A,
    declared: &Declaration<'_, A>,
    text: &[u8],
) -> Result<Workqueues<A>, CertError>
    ensures workqueues { IfOk result (λ ws.
        workqueues_of_text declared.now.table.names declared.now.partition text.now ≡ Ok ws) }
    ensures assigned { IfOk result (λ ws. length ws.assignment.lane_of_group ≡ declared.now.partition.groups) }
    ensures fault { IfErr result (λ e.
        IsCertFaultOf e (workqueues_of_text declared.now.table.names declared.now.partition text.now)) }
{
    read_workqueues(alloc, text, &declared.table, &declared.groups)
}
