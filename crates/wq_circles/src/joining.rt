//! The components of an assignment: the arcs that lie on a circle.
//!
//! The rule is that of "The command `circles`" in docs/FORMAT.md: an arc lies on a circle if the workqueue of its
//! target leads to that of its item, and so if the two are in one strongly connected component. So the workqueues of
//! each strongly connected component are joined, and what then leads from a workqueue to itself lies on a circle. It
//! takes the time and the memory of two wait graphs and of the strongly connected components of the first one
//! (`together`).

ghost use Rattle.std.specs.Prelude.{◌≡◌, ◌<◌, length, map, IfOk, OnErr};
ghost use Rattle.std.specs.List.{All};
ghost use Rattle.wq_groups.specs.DeclaredGroups.{declared_waits};
ghost use Rattle.wq_circles.specs.Components.{joined, kept_graph, loops_at, loops, AreComponents};

use crate::together::lowest;
use std::alloc::{AllocError, Allocator};
use wq_core::Assigned;
use wq_deadlock::rescued_graph;
use wq_graph::{WaitArc, WaitGraph};
use wq_groups::{Assignment, GroupId, LaneId};

/// For each group, the lane that represents its own.
fn joined_lanes<A: Allocator + Copy>(
    alloc: A,
    assigned: &Assigned<'_, '_, A>,
    lowest: &[u16],
) -> Result<Vec<LaneId, A>, AllocError>
    requires { length lowest.now ≡ assigned.now.workqueues.assignment.lanes }
    ensures lanes { IfOk result (λ lanes.
        lanes.items ≡ (joined assigned.now.workqueues.assignment lowest.now).lane_of_group) }
    ensures memory { OnErr result (0 < assigned.now.workqueues.assignment.lanes) }
{
    let count = assigned.groups().len();
    let assignment = assigned.workqueues().assignment();
    let mut lanes = Vec::with_capacity(alloc, usize::from(count))?;
    for g in 0..count {
        let lane = assignment.lane(GroupId::new(g));
        lanes.push(LaneId::new(lowest[usize::from(lane.get())]))?;
    }
    Ok(lanes)
}

/// The assignment in which each group is on the lane that represents its own.
fn join<A: Allocator + Copy>(
    alloc: A,
    assigned: &Assigned<'_, '_, A>,
    lowest: &[u16],
) -> Result<Assignment<A>, AllocError>
    requires one_each { length lowest.now ≡ assigned.now.workqueues.assignment.lanes }
    requires within { All (λ q. q < assigned.now.workqueues.assignment.lanes) lowest.now }
    ensures joined { IfOk result (λ a. a ≡ joined assigned.now.workqueues.assignment lowest.now) }
    ensures memory { OnErr result (0 < assigned.now.workqueues.assignment.lanes) }
{
    let lanes = joined_lanes(alloc, assigned, lowest)?;
    let count = assigned.workqueues().assignment().lanes();
    Ok(Assignment::new(count, lanes).unwrap())
}

/// The arcs that leave a vertex and lead back to it, in order of place.
fn loops_at<A: Allocator + Copy>(
    alloc: A,
    graph: &WaitGraph<A>,
    vertex: u16,
) -> Result<Vec<WaitArc, A>, AllocError>
    requires { vertex < length graph.now }
    ensures { IfOk result (λ arcs. arcs.items ≡ loops_at graph.now vertex) }
{
    let mut arcs = Vec::new(alloc);
    for arc in graph.arcs(vertex) {
        if arc.head == vertex {
            arcs.push(*arc)?;
        }
    }
    Ok(arcs)
}

/// The loops of each vertex, in vertex order. A vertex without a loop has no entry.
fn loops<A: Allocator + Copy>(
    alloc: A,
    graph: &WaitGraph<A>,
) -> Result<Vec<Vec<WaitArc, A>, A>, AllocError>
    ensures loops { IfOk result (λ lists. map (λ l. l.items) lists.items ≡ loops graph.now) }
    ensures memory { OnErr result (0 < length graph.now) }
{
    let mut lists = Vec::new(alloc);
    for vertex in 0..graph.vertices() {
        let arcs = loops_at(alloc, graph, vertex)?;
        if !arcs.is_empty() {
            lists.push(arcs)?;
        }
    }
    Ok(lists)
}

/// The loops after lanes have been joined, except those of bare lanes.
fn loops_joined<A: Allocator + Copy>(
    alloc: A,
    assigned: &Assigned<'_, '_, A>,
    lowest: &[u16],
) -> Result<Vec<Vec<WaitArc, A>, A>, AllocError>
    requires one_each { length lowest.now ≡ assigned.now.workqueues.assignment.lanes }
    requires within { All (λ q. q < assigned.now.workqueues.assignment.lanes) lowest.now }
    ensures loops { IfOk result (λ lists. map (λ l. l.items) lists.items
        ≡ loops (kept_graph (declared_waits assigned.now.declared)
        (joined assigned.now.workqueues.assignment lowest.now) assigned.now.workqueues.bare)) }
    ensures memory { OnErr result (0 < assigned.now.workqueues.assignment.lanes) }
{
    let joined = join(alloc, assigned, lowest)?;
    let graph = WaitGraph::of_lanes(alloc, assigned.table(), assigned.groups(), &joined)?;
    let graph = graph.without(alloc, assigned.workqueues().bare())?;
    loops(alloc, &graph)
}

/// The components of the workqueues of declared groups that have a rescuer, each as its arcs.
///
/// The only error is out of memory (20), which can't occur if there is no workqueue.
pub fn components<A: Allocator + Copy>(
    alloc: A,
    assigned: &Assigned<'_, '_, A>,
) -> Result<Vec<Vec<WaitArc, A>, A>, AllocError>
    ensures components { IfOk result (λ lists. AreComponents (declared_waits assigned.now.declared)
        assigned.now.workqueues (map (λ l. l.items) lists.items)) }
    ensures memory { OnErr result (0 < assigned.now.workqueues.assignment.lanes) }
{
    let graph = rescued_graph(alloc, assigned)?;
    let lowest = lowest(alloc, &graph)?;
    loops_joined(alloc, assigned, lowest.as_slice())
}
