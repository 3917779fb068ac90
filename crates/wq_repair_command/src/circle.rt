//! The text of a circle of groups that need a rescuer and wait for each other.
//!
//! Its form is that of "Circle texts" in docs/FORMAT.md. A call takes the time and the memory of the run of this
//! circle, in which each group has a workqueue of its own.

ghost use Rattle.std.specs.Prelude.{◌≡◌, IfOk, map};
ghost use Rattle.wq_groups.specs.DeclaredGroups.{declared_waits};
ghost use Rattle.wq_commands.specs.Answer.{ends_of};
ghost use Rattle.wq_core.specs.Deadlock.{DeadlocksBy};
ghost use Rattle.wq_core.specs.Wiring.{wiring, own_lanes};
ghost use Rattle.wq_core.specs.Workqueues.{Workqueues};
ghost use Rattle.wq_deadlock.specs.CircleRun.{IsCircleRun};
ghost use Rattle.wq_repair.specs.Repair.{IsNeededCircle};
ghost use Rattle.wq_repair_command.specs.Repairing.{PrintsWithRun};

use std::alloc::{AllocError, Allocator};
use wq_cert::circle_text;
use wq_core::Step;
use wq_deadlock::run_round;
use wq_graph::WaitArc;
use wq_groups::Declaration;
use wq_items::ItemId;

/// The item and the target of each arc.
fn ends_of<A: Allocator + Copy>(
    alloc: A,
    arcs: &[WaitArc],
) -> Result<Vec<(ItemId, ItemId), A>, AllocError>
    ensures { IfOk result (λ ends. ends.items ≡ map ends_of arcs.now) }
{
    let mut ends = Vec::new(alloc);
    for arc in arcs {
        ends.push((arc.src, arc.dst))?;
    }
    Ok(ends)
}

/// The run of this circle if each group has a workqueue of its own. By it all items hang.
fn run_of_circle<A: Allocator + Copy>(
    alloc: A,
    declared: &Declaration<'_, A>,
    arcs: &[WaitArc],
) -> Result<Vec<Step, A>, AllocError>
    requires needed { (old : Workqueues) × IsNeededCircle (declared_waits declared.now) old arcs.now }
    ensures run { IfOk result (λ steps. IsCircleRun
        (wiring (declared_waits declared.now) (own_lanes declared.now.partition.groups)) arcs.now steps.items) }
    ensures deadlocks { IfOk result (λ steps. DeadlocksBy
        (wiring (declared_waits declared.now) (own_lanes declared.now.partition.groups)) steps.items) }
{
    run_round(alloc, &declared.table, &declared.groups, arcs)
}

/// The text of the circle in which groups wait that need a rescuer, with its run if each group has a workqueue of its
/// own.
pub(crate) fn text_of_circle<A: Allocator + Copy>(
    alloc: A,
    declared: &Declaration<'_, A>,
    arcs: &[WaitArc],
) -> Result<Vec<u8, A>, AllocError>
    requires needed { (old : Workqueues) × IsNeededCircle (declared_waits declared.now) old arcs.now }
    ensures { IfOk result (λ text. PrintsWithRun declared.now arcs.now text.items) }
{
    let table = &declared.table;
    let ends = ends_of(alloc, arcs)?;
    let steps = run_of_circle(alloc, declared, arcs)?;
    circle_text(alloc, table, &ends, Some(steps.as_slice()))
}
