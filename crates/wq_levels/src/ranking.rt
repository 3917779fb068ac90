//! The rank of each vertex, or a circle that leaves some vertices without one.
//!
//! This is a topological sort: a vertex is removed once all of its arcs have gone, and then the arcs that lead to it
//! go. So each vertex comes after those that it waits for (A. B. Kahn, "Topological sorting of large networks",
//! Communications of the ACM 5, 1962). If all are removed, their ranks are known: the workqueues of "Plan texts" in
//! docs/FORMAT.md. If some remain, the walk from the lowest-numbered of them finds the circle of "Circle texts". It
//! takes
//!
//!   O(vertices + arcs) time and memory.

ghost use Rattle.std.specs.Prelude.{◌≡◌, ◌<◌, ◌↔◌, length, IfOk, OnErr, IsTrue};
ghost use Rattle.std.specs.List.{Any};
ghost use Rattle.wq_levels.specs.Ranked.{IsRanking};
ghost use Rattle.wq_levels.specs.Taking.{AreMarked, AreTakenOff};

use crate::incoming::Incoming;
use crate::progress::Progress;
use crate::ranked::Ranked;
use crate::walk::walk_circle;
use std::alloc::{AllocError, Allocator};
use wq_graph::WaitGraph;

/// Removes each vertex once all of its arcs have gone.
fn take_off<A: Allocator + Copy>(alloc: A, graph: &WaitGraph<A>) -> Result<Progress<A>, AllocError>
    ensures { IfOk result (λ p. AreTakenOff graph.now p.remaining p.ranks) }
{
    let incoming = Incoming::new(alloc, graph)?;
    let mut progress = Progress::new(alloc, graph)?;
    for place in 0..graph.vertices() {
        if let Some(vertex) = progress.nth(usize::from(place)) {
            progress.take_off(vertex, incoming.places.places(vertex), &incoming.tails)?;
        }
    }
    Ok(progress)
}

/// Sets the rank of each vertex that has arcs left to `mark`.
fn mark_remaining(remaining: &[usize], ranks: &mut [u16], mark: u16)
    requires { length remaining.now ≡ length ranks.old }
    ensures { AreMarked remaining.now mark ranks.old ranks.new }
{
    for (v, arcs) in remaining.iter().enumerate() {
        if *arcs > 0 {
            ranks[v] = mark;
        }
    }
}

/// Whether any vertex has arcs left.
fn is_any_left(remaining: &[usize]) -> bool
    ensures { IsTrue result ↔ Any (λ arcs. 0 < arcs) remaining.now }
{
    remaining.iter().any(|arcs| *arcs > 0)
}

/// The ranks of a wait graph without a circle, or else the circle of its walk.
///
/// The only error is out of memory (20), which can't occur for a graph without vertices: any other result is a list
/// that takes memory.
pub fn rank<A: Allocator + Copy>(alloc: A, graph: &WaitGraph<A>) -> Result<Ranked<A>, AllocError>
    ensures ranking { IfOk result (IsRanking graph.now) }
    ensures memory { OnErr result (0 < length graph.now) }
{
    let vertices = graph.vertices();
    if vertices == 0 {
        return Ok(Ranked::Ranks(Vec::new(alloc)));
    }
    let (remaining, mut ranks) = take_off(alloc, graph)?.into_parts();
    if !is_any_left(&remaining) {
        return Ok(Ranked::Ranks(ranks));
    }
    mark_remaining(&remaining, ranks.as_mut_slice(), vertices);
    Ok(Ranked::Circle(walk_circle(alloc, graph, &ranks)?))
}
