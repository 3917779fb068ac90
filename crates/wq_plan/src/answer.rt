//! The answer to a declaration.

use std::alloc::Allocator;
use wq_graph::WaitArc;
use wq_groups::Assignment;

/// A plan, or the reason why there is none.
#[derive(Drop)]
pub enum Answer<A: Allocator> {
    /// The lane of each group, and the arcs of a longest chain, from its first group on.
    Plan {
        assignment: Assignment<A>,
        chain: Vec<WaitArc, A>,
    },
    /// The groups wait in a circle, so no assignment is safe. These are the arcs of the circle.
    Circle {
        arcs: Vec<WaitArc, A>,
    },
}
