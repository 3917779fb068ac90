//! The run that shows a circle of groups: that of the assignment in which each group has a lane of its own.
//!
//! If groups wait in a circle, no assignment is safe, not even the one with as many lanes as groups. Finding the run
//! takes the time of a verdict on that assignment.

ghost use Rattle.std.specs.Prelude.{◌≡◌, ◌<◌, length, IfOk, OnErr};
ghost use Rattle.std.specs.List.{range_with_len};
ghost use Rattle.std.specs.Option.{option_map};
ghost use Rattle.wq_groups.specs.Declaration.{declaration_of};
ghost use Rattle.wq_core.specs.Wiring.{wiring, own_lanes};
ghost use Rattle.wq_graph.specs.Graph.{group_graph};
ghost use Rattle.wq_levels.specs.Walks.{LeadsRound};
ghost use Rattle.wq_deadlock.specs.CircleRun.{IsCircleRun};
ghost use Rattle.wq_deadlock.specs.Verdict.{IsGroupsRun};

use crate::deciding::{run_of_circle, verdict};
use crate::outcome::Verdict;
use std::alloc::{AllocError, Allocator};
use wq_core::Step;
use wq_graph::WaitArc;
use wq_groups::{Assignment, Groups, LaneId};
use wq_items::ItemTable;

/// The lanes 0 to `count` - 1, in order.
fn lanes_in_turn<A: Allocator + Copy>(alloc: A, count: u16) -> Result<Vec<LaneId, A>, AllocError>
    ensures lanes { IfOk result (λ lanes. lanes.items ≡ range_with_len 0 count) }
    ensures memory { OnErr result (0 < count) }
{
    let mut lanes = Vec::with_capacity(alloc, usize::from(count))?;
    for q in 0..count {
        lanes.push(LaneId::new(q))?;
    }
    Ok(lanes)
}

/// The assignment in which group g has lane g.
///
/// The only error is out of memory (20), which can't occur if there is no group.
pub fn own_lanes<A: Allocator + Copy>(
    alloc: A,
    groups: &Groups<A>,
) -> Result<Assignment<A>, AllocError>
    ensures lanes { IfOk result (λ a. a ≡ own_lanes groups.now.groups) }
    ensures memory { OnErr result (0 < groups.now.groups) }
{
    let lanes = lanes_in_turn(alloc, groups.len())?;
    Ok(Assignment::new(groups.len(), lanes).unwrap())
}

/// The run that deadlocks if each group g has lane g. It is `None` exactly if that assignment is safe, and so if the
/// groups don't wait in a circle. The groups must be those of this table.
///
/// The only error is out of memory (20), which can't occur if there is no group.
pub fn circle_run<A: Allocator + Copy>(
    alloc: A,
    table: &ItemTable<'_, A>,
    groups: &Groups<A>,
) -> Result<Option<Vec<Step, A>>, AllocError>
    requires { length groups.now.group_of ≡ length table.now.names }
    ensures run { IfOk result (λ run.
        IsGroupsRun (declaration_of table.now groups.now) (option_map (λ steps. steps.items) run)) }
    ensures memory { OnErr result (0 < groups.now.groups) }
{
    let assignment = own_lanes(alloc, groups)?;
    match verdict(alloc, table, groups, &assignment)? {
        Verdict::Safe(_) => Ok(None),
        Verdict::Deadlock(steps) => Ok(Some(steps)),
    }
}

/// The run of this circle of groups if each group g has lane g: what flushes along its arcs is queued first. By it that
/// assignment deadlocks. The groups must be those of this table, and the arcs must lead round a circle of groups.
///
/// The only error is out of memory (20).
pub fn run_round<A: Allocator + Copy>(
    alloc: A,
    table: &ItemTable<'_, A>,
    groups: &Groups<A>,
    circle: &[WaitArc],
) -> Result<Vec<Step, A>, AllocError>
    requires grouped { length groups.now.group_of ≡ length table.now.names }
    requires round { LeadsRound (group_graph (declaration_of table.now groups.now)) circle.now }
    ensures { IfOk result (λ steps. IsCircleRun
        (wiring (declaration_of table.now groups.now) (own_lanes groups.now.groups)) circle.now steps.items) }
{
    // Each group has a member.
    prove!(groups.len() <= table.len());
    let assignment = own_lanes(alloc, groups)?;
    run_of_circle(alloc, table, groups, &assignment, circle)
}
