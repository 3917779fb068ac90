//! The verdict on an assignment.

use std::alloc::Allocator;
use wq_core::Step;

/// Whether an assignment is safe, and what shows it.
#[derive(Drop)]
pub enum Verdict<A: Allocator> {
    /// The assignment is safe: no run ends stuck. For each lane this has its rank, the number of lanes on a longest
    /// chain that begins there, minus one. Ranks fall along every declared flush.
    Safe(Vec<u16, A>),
    /// The assignment isn't safe: these steps are a run that ends stuck.
    Deadlock(Vec<Step, A>),
}
