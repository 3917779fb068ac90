//! Whether workqueues are safe, some of which may have no rescuer.
//!
//! Nothing can rely on a workqueue without a rescuer. So an item whose workqueue has one may never finish if it waits
//! for an item whose workqueue has none. If no item does that, what is on workqueues without a rescuer doesn't count
//! any more, and the others are judged by their graph. This takes the time of two wait graphs and their ranks and, if
//! the workqueues aren't safe, that of the run.

ghost use Rattle.std.specs.Prelude.{◌≡◌, ◌<◌, [], IfOk, OnErr};
ghost use Rattle.wq_groups.specs.DeclaredGroups.{declared_waits};
ghost use Rattle.wq_core.specs.Assigned.{IsAssigned};
ghost use Rattle.wq_deadlock.specs.Judging.{AreFirst, IsJudged, bare_waits, rescued_graph};

use crate::bare::bare_waits;
use crate::hanging::hanging_run;
use crate::judged::Judged;
use crate::queueing::flushing_items;
use std::alloc::{AllocError, Allocator};
use wq_core::{Assigned, Core};
use wq_graph::WaitGraph;
use wq_items::ItemId;
use wq_levels::{Ranked, rank};

/// The wait graph of the lanes that have a rescuer; and what holds for each declaration with workqueues.
///
/// The only error is out of memory (20), which can't occur if there is no lane.
pub fn rescued_graph<A: Allocator + Copy>(
    alloc: A,
    assigned: &Assigned<'_, '_, A>,
) -> Result<WaitGraph<A>, AllocError>
    ensures graph { IfOk result (λ g.
        g ≡ rescued_graph (declared_waits assigned.now.declared) assigned.now.workqueues) }
    ensures assigned { IsAssigned assigned.now }
    ensures memory { OnErr result (0 < assigned.now.workqueues.assignment.lanes) }
{
    let workqueues = assigned.workqueues();
    let graph = WaitGraph::of_lanes(
        alloc,
        assigned.table(),
        assigned.groups(),
        workqueues.assignment(),
    )?;
    graph.without(alloc, workqueues.bare())
}

/// The run by which these workqueues hang if the items `first` are queued first.
fn hang<A: Allocator + Copy>(
    alloc: A,
    assigned: &Assigned<'_, '_, A>,
    first: &[ItemId],
) -> Result<Judged<A>, AllocError>
    requires first { AreFirst (declared_waits assigned.now.declared) assigned.now.workqueues
        (bare_waits (declared_waits assigned.now.declared) assigned.now.workqueues) first.now }
    ensures verdict { IfOk result (IsJudged (declared_waits assigned.now.declared) assigned.now.workqueues) }
    ensures memory { OnErr result (0 < assigned.now.workqueues.assignment.lanes) }
{
    let core = Core::on_workqueues(
        alloc,
        assigned.table(),
        assigned.groups(),
        assigned.workqueues(),
    )?;
    let steps = hanging_run(alloc, core, first)?;
    Ok(Judged::Deadlock(steps))
}

/// The verdict if no flush leads from a workqueue that has a rescuer to one that has none.
fn judge_rescued<A: Allocator + Copy>(
    alloc: A,
    assigned: &Assigned<'_, '_, A>,
) -> Result<Judged<A>, AllocError>
    requires none { bare_waits (declared_waits assigned.now.declared) assigned.now.workqueues ≡ [] }
    ensures verdict { IfOk result (IsJudged (declared_waits assigned.now.declared) assigned.now.workqueues) }
    ensures memory { OnErr result (0 < assigned.now.workqueues.assignment.lanes) }
{
    let graph = rescued_graph(alloc, assigned)?;
    match rank(alloc, &graph)? {
        Ranked::Ranks(_) => Ok(Judged::Safe),
        Ranked::Circle(circle) => {
            let first = flushing_items(alloc, circle.as_slice())?;
            hang(alloc, assigned, first.as_slice())
        }
    }
}

/// Whether the workqueues of declared groups are safe.
///
/// `Deadlock` has a run that ends stuck. The items that are queued first hold up all that wait for them. If some flush
/// leads from a workqueue that has a rescuer to one that has none, that is the item of the first such flush; otherwise
/// they are the items of the circle in which the workqueues with a rescuer wait. The only error is out of memory (20),
/// which can't occur if there is no workqueue.
pub fn judge<A: Allocator + Copy>(
    alloc: A,
    assigned: &Assigned<'_, '_, A>,
) -> Result<Judged<A>, AllocError>
    ensures verdict { IfOk result (IsJudged (declared_waits assigned.now.declared) assigned.now.workqueues) }
    ensures memory { OnErr result (0 < assigned.now.workqueues.assignment.lanes) }
{
    let waits = bare_waits(alloc, assigned)?;
    match waits.as_slice().first() {
        Some(arc) => hang(alloc, assigned, &[arc.src]),
        None => judge_rescued(alloc, assigned),
    }
}
