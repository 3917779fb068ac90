//! Workqueues that stay as they are, while items are planned that aren't on them.
//!
//! What the layers above rely on: what keeps them (`Keeps`); the start, which gives each group that is on none of them
//! a workqueue of its own; and that a chain of the start shows the fewest new workqueues, and a circle of it that there
//! is no plan. Here lanes that wait and runs that end stuck meet: the laws rest on those of `wq_core`. The rules are
//! those of "Planning around workqueues" in docs/FORMAT.md. Making the start takes time and memory in the number of
//! groups and workqueues.
#![tactic(auto)]

mod fixed;
pub mod laws;
mod starting;

pub use fixed::Fixed;
pub use starting::start;
