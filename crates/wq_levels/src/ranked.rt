//! The result for a wait graph: a rank for each vertex, or a circle.

use std::alloc::Allocator;
use wq_graph::WaitArc;

/// The ranks of a wait graph's vertices, or a circle of them.
#[derive(Drop)]
pub enum Ranked<A: Allocator> {
    /// For each vertex, the number of vertices on a longest chain that begins there, minus one.
    Ranks(Vec<u16, A>),
    /// The arcs of the circle that the walk from the lowest-numbered remaining vertex runs into, along the first arcs
    /// by place.
    Circle(Vec<WaitArc, A>),
}
