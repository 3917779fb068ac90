//! Repaired workqueues, or why there are none.
//!
//! Nothing is computed here.

use std::alloc::Allocator;
use wq_core::{Step, Workqueues};
use wq_graph::WaitArc;

/// What can be done about workqueues, if only some items may move.
#[derive(Drop)]
pub enum Answer<A: Allocator> {
    /// Nothing has to be done: no run ends stuck.
    Safe,
    /// They deadlock, and these are safe. Without any of the changes they would deadlock. A group is on each new one.
    Repaired(Workqueues<A>),
    /// They deadlock, and so they do whatever is changed, if no other item may move. In these each group that may move
    /// and needs a rescuer is alone; the run is the one by which they deadlock.
    TooFewNames(Workqueues<A>, Vec<Step, A>),
    /// Groups that need a rescuer wait in this circle. So they deadlock whatever is changed.
    Circle(Vec<WaitArc, A>),
}
