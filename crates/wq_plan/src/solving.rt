//! One workqueue for each length of waiting chain.
//!
//! The lane of a group is its rank in the wait graph of the groups, so a group waits only for groups on lower lanes. If
//! groups wait in a circle, none of them has a rank, and the answer is the circle instead of a plan. The time is that
//! of the graph and of the ranks.

ghost use Rattle.std.specs.Prelude.{◌≡◌, ◌<◌, ◌≤◌, length, map, IfOk, OnErr};
ghost use Rattle.std.specs.List.{All, range_with_len};
ghost use Rattle.wq_items.specs.Readings.{is_among, unsure_places};
ghost use Rattle.wq_items.specs.Table.{flush_count};
ghost use Rattle.wq_groups.specs.Declaration.{declaration_of};
ghost use Rattle.wq_plan.specs.Solve.{Solves, PlanIsSafe, FewerDeadlock};

use crate::answer::Answer;
use crate::longest::{lanes_used, longest_chain};
use std::alloc::{AllocError, Allocator};
use wq_graph::WaitGraph;
use wq_groups::{Assignment, Groups, LaneId};
use wq_items::{ItemId, ItemTable};
use wq_levels::{Ranked, rank};

/// Numbers as lanes.
fn lane_ids<A: Allocator + Copy>(alloc: A, lane: &[u16]) -> Result<Vec<LaneId, A>, AllocError>
    ensures ids { IfOk result (λ ids. ids.items ≡ lane.now) }
    ensures memory { OnErr result (0 < length lane.now) }
{
    let mut ids = Vec::with_capacity(alloc, lane.len())?;
    for number in lane {
        ids.push(LaneId::new(*number))?;
    }
    Ok(ids)
}

/// The assignment with this many lanes that puts group g on lane `lane[g]`.
fn assign<A: Allocator + Copy>(
    alloc: A,
    lane: &[u16],
    lanes: u16,
) -> Result<Assignment<A>, AllocError>
    requires few { lanes ≤ 4096 }
    requires within { All (λ l. l < lanes) lane.now }
    ensures lanes { IfOk result (λ a. a.lanes ≡ lanes) }
    ensures of_groups { IfOk result (λ a. a.lane_of_group ≡ lane.now) }
    ensures memory { OnErr result (0 < length lane.now) }
{
    let ids = lane_ids(alloc, lane)?;
    Ok(Assignment::new(lanes, ids).unwrap())
}

/// For each place, whether the flush there is unsure.
pub fn unsure_flushes<A: Allocator + Copy>(
    alloc: A,
    table: &ItemTable<'_, A>,
) -> Result<Vec<bool, A>, AllocError>
    ensures unsure { IfOk result (λ marks. marks.items
        ≡ map (is_among (unsure_places table.now.waits)) (range_with_len 0 (flush_count table.now.waits))) }
    ensures memory { OnErr result (0 < length table.now.names) }
{
    let items = table.len();
    let mut marks = Vec::new(alloc);
    marks.resize(table.flushes() as usize, false)?;
    for number in 0..items {
        for target in table.waits(ItemId::new(number)) {
            if target.unsure {
                marks[target.place as usize] = true;
            }
        }
    }
    Ok(marks)
}

/// Finds the plan of the groups of a table's items, or the circle in which they wait. The groups must be those of this
/// table.
///
/// No run of a plan ends stuck, and every assignment to fewer workqueues deadlocks. The only error is out of memory
/// (20), which can't occur if there is no group: any other answer is a list that takes memory.
pub fn solve<A: Allocator + Copy>(
    alloc: A,
    table: &ItemTable<'_, A>,
    groups: &Groups<A>,
) -> Result<Answer<A>, AllocError>
    requires { length groups.now.group_of ≡ length table.now.names }
    ensures answer { IfOk result (Solves (declaration_of table.now groups.now)) }
    ensures safe { IfOk result (PlanIsSafe (declaration_of table.now groups.now)) }
    ensures fewer { IfOk result (FewerDeadlock (declaration_of table.now groups.now)) }
    ensures memory { OnErr result (0 < groups.now.groups) }
{
    // Each group has a member.
    prove!(groups.len() <= table.len());
    let graph = WaitGraph::of_groups(alloc, table, groups)?;
    let lane = match rank(alloc, &graph)? {
        Ranked::Ranks(lane) => lane,
        Ranked::Circle(arcs) => return Ok(Answer::Circle { arcs }),
    };
    let lanes = lanes_used(&lane);
    let unsure = unsure_flushes(alloc, table)?;
    let chain = longest_chain(alloc, &graph, &unsure, &lane, lanes)?;
    let assignment = assign(alloc, &lane, lanes)?;
    Ok(Answer::Plan { assignment, chain })
}
