//! The verdict on workqueues, some of which may have no rescuer.

use std::alloc::Allocator;
use wq_core::Step;

/// Whether workqueues are safe, and what shows that they aren't.
#[derive(Drop)]
pub enum Judged<A: Allocator> {
    /// The workqueues are safe: no run ends stuck.
    Safe,
    /// The workqueues aren't safe: these steps are a run that ends stuck.
    Deadlock(Vec<Step, A>),
}
