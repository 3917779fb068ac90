//! The circle that is the result for a wait graph if vertices remain.
//!
//! The walk begins at the lowest-numbered vertex that remains. It leaves each vertex by the first arc, in order of
//! place, that leads to a remaining vertex, until it comes to a vertex that it has left before. The arcs from there on
//! are the circle; the arcs that led to it are left out ("Circle texts" in docs/FORMAT.md). The walk leaves each vertex
//! at most once, so it takes
//!
//!   O(vertices + arcs) time.
ghost use Rattle.std.specs.Prelude.{◌≡◌, ◌<◌, ◌==◌, length, slice_index, IfOk};
ghost use Rattle.std.specs.List.{All, find, position};
ghost use Rattle.std.specs.Option.{option_copied};
ghost use Rattle.wq_levels.specs.Walks.{IsLeastRemaining, IsWalkedCircle, IsWayOn, MarkRemaining, Remains};

use std::alloc::{AllocError, Allocator};
use wq_graph::{WaitArc, WaitGraph};

/// The lowest-numbered vertex with rank `rank`.
fn first_of_rank(ranks: &[u16], rank: u16) -> Option<usize>
    ensures { result ≡ position (λ r. r == rank) ranks.now }
{
    ranks.iter().position(|r| *r == rank)
}

/// The lowest-numbered vertex that remains.
fn least_remaining<A: Allocator + Copy>(graph: &WaitGraph<A>, ranks: &[u16]) -> u16
    requires { MarkRemaining graph.now ranks.now }
    ensures { IsLeastRemaining graph.now result }
{
    first_of_rank(ranks, graph.vertices()).unwrap() as u16
}

/// The first arc that leads to a vertex with rank `rank`.
fn first_to_rank<'g>(arcs: &'g [WaitArc], ranks: &[u16], rank: u16) -> Option<&'g WaitArc>
    requires { All (λ a. a.head < length ranks.now) arcs.now }
    ensures { option_copied result ≡ find (λ a. slice_index ranks.now a.head == rank) arcs.now }
{
    arcs.iter().find(|a| ranks[usize::from(a.head)] == rank)
}

/// The arc by which the walk leaves a vertex that remains.
fn way_on<A: Allocator + Copy>(graph: &WaitGraph<A>, ranks: &[u16], vertex: u16) -> WaitArc
    requires marked { MarkRemaining graph.now ranks.now }
    requires remains { Remains graph.now vertex }
    ensures { IsWayOn graph.now vertex result }
{
    *first_to_rank(graph.arcs(vertex), ranks, graph.vertices()).unwrap()
}

/// The circle of the walk; exactly the remaining vertices have the number of vertices as their rank.
pub(crate) fn walk_circle<A: Allocator + Copy>(
    alloc: A,
    graph: &WaitGraph<A>,
    ranks: &[u16],
) -> Result<Vec<WaitArc, A>, AllocError>
    requires { MarkRemaining graph.now ranks.now }
    ensures { IfOk result (λ circle. IsWalkedCircle graph.now circle.items) }
{
    let mut vertex = least_remaining(graph, ranks);
    // For each vertex, the index of the arc by which the walk left it.
    let mut left = vec![in alloc; None; usize::from(graph.vertices())]?;
    let mut walked = Vec::new(alloc);
    'walk: loop {
        let at = usize::from(vertex);
        let before = left[at];
        if let Some(first) = before {
            return walked.split_off(first);
        }
        left[at] = Some(walked.len());
        let arc = way_on(graph, ranks, vertex);
        vertex = arc.head;
        walked.push(arc)?;
    }
}
