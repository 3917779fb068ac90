//! Whether an assignment is safe: ranks of its lanes, or the run of the circle in which they wait.
//!
//! The graph is that of the lanes, so groups that share a lane are one vertex: a group waits for all that is on the
//! lanes of what it flushes. A chain of lanes with falling ranks can always move at its end; lanes in a circle may be
//! unable to. The time is that of the graph and its ranks and, if the lanes wait in a circle, that of the run: each of
//! its steps asks a lane what it can do, and after each finish, the stuck lanes below the one that moves next are
//! skipped.

ghost use Rattle.std.specs.Prelude.{◌≡◌, ◌<◌, length, IfOk, OnErr};
ghost use Rattle.wq_graph.specs.Graph.{lane_graph};
ghost use Rattle.wq_groups.specs.Declaration.{declaration_of};
ghost use Rattle.wq_levels.specs.Walks.{LeadsRound};
ghost use Rattle.wq_core.specs.Wiring.{wiring};
ghost use Rattle.wq_deadlock.specs.CircleRun.{IsCircleRun};
ghost use Rattle.wq_deadlock.specs.Verdict.{IsVerdict};

use crate::outcome::Verdict;
use crate::playing::play;
use crate::queueing::{flushing_items, make_all, queueings};
use std::alloc::{AllocError, Allocator};
use wq_core::{Core, Step};
use wq_graph::{WaitArc, WaitGraph};
use wq_groups::{Assignment, Groups};
use wq_items::ItemTable;
use wq_levels::{Ranked, rank};

/// The run of a circle in which the lanes wait.
pub(crate) fn run_of_circle<A: Allocator + Copy>(
    alloc: A,
    table: &ItemTable<'_, A>,
    groups: &Groups<A>,
    assignment: &Assignment<A>,
    circle: &[WaitArc],
) -> Result<Vec<Step, A>, AllocError>
    requires grouped { length groups.now.group_of ≡ length table.now.names }
    requires assigned { length assignment.now.lane_of_group ≡ groups.now.groups }
    requires round { LeadsRound (lane_graph (declaration_of table.now groups.now) assignment.now) circle.now }
    ensures { IfOk result (λ steps.
        IsCircleRun (wiring (declaration_of table.now groups.now) assignment.now) circle.now steps.items) }
{
    // Each group has a member.
    prove!(groups.len() <= table.len());
    prove!(assignment.lanes() <= 4096);
    let mut core = Core::new(alloc, table, groups, assignment)?;
    let first = flushing_items(alloc, circle)?;
    let mut steps = queueings(alloc, &core, first.as_slice())?;
    make_all(&mut core, steps.as_slice());
    let played = play(alloc, &mut core)?;
    steps.extend_from_slice(played.as_slice())?;
    Ok(steps)
}

/// Whether an assignment of a table's items is safe. The groups must be those of this table, and the assignment must
/// have a lane for each of them.
///
/// `Safe` has a rank for each lane, and ranks fall along every declared flush. `Deadlock` has the run of the circle in
/// which the lanes wait, which ends stuck. The only error is out of memory (20), which can't occur if there is no lane:
/// any other verdict is a list that takes memory.
pub fn verdict<A: Allocator + Copy>(
    alloc: A,
    table: &ItemTable<'_, A>,
    groups: &Groups<A>,
    assignment: &Assignment<A>,
) -> Result<Verdict<A>, AllocError>
    requires grouped { length groups.now.group_of ≡ length table.now.names }
    requires assigned { length assignment.now.lane_of_group ≡ groups.now.groups }
    ensures verdict { IfOk result (IsVerdict (declaration_of table.now groups.now) assignment.now) }
    ensures memory { OnErr result (0 < assignment.now.lanes) }
{
    // Each group has a member.
    prove!(groups.len() <= table.len());
    prove!(assignment.lanes() <= 4096);
    let graph = WaitGraph::of_lanes(alloc, table, groups, assignment)?;
    match rank(alloc, &graph)? {
        Ranked::Ranks(ranks) => Ok(Verdict::Safe(ranks)),
        Ranked::Circle(circle) => {
            let steps = run_of_circle(alloc, table, groups, assignment, circle.as_slice())?;
            Ok(Verdict::Deadlock(steps))
        }
    }
}
