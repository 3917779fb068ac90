//! The answer to a declaration and workqueues that stay as they are.
//!
//! Nothing is computed here.

use std::alloc::Allocator;
use wq_core::Workqueues;
use wq_graph::WaitArc;
use wq_groups::LaneId;

/// A plan, or the reason why there is none.
#[derive(Drop)]
pub enum Around<A: Allocator> {
    /// The fixed workqueues and the new ones; an order of those that have a rescuer, in which each waits only for those
    /// before it; and the arcs of a chain of the start that shows how many new ones are needed.
    Plan {
        workqueues: Workqueues<A>,
        order: Vec<LaneId, A>,
        chain: Vec<WaitArc, A>,
    },
    /// In the start, this is the first flush that leads to no rescuer.
    NoRescuer {
        arc: WaitArc,
    },
    /// In the start, workqueues that have a rescuer wait in a circle. These are its arcs.
    Circle {
        arcs: Vec<WaitArc, A>,
    },
}
