//! Ranks of a wait graph, or a circle that leaves some vertex without one.
//!
//! The layer above relies on this: longest-chain ranks, or the circle of the walk, as "Plan texts" and "Circle texts"
//! in docs/FORMAT.md say. The rule behind them is that of Documentation/core-api/workqueue.rst, "Guidelines": work
//! items that depend on one another belong on separate workqueues, so a chain of n vertices needs n of them. It takes
//!
//!   O(vertices + arcs) time and memory.
#![tactic(auto)]

mod incoming;
pub mod laws;
mod progress;
mod ranked;
mod ranking;
mod walk;

pub use ranked::Ranked;
pub use ranking::rank;
