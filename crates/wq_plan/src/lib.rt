//! Plans of workqueues: which workqueue serves each group, so that no flush waits for its own queue.
//!
//! The layer above relies on this: the lane of a group is the number of groups on the longest chain that begins at it,
//! minus one; the chain is a longest one; no run of the plan ends stuck; and every assignment to fewer lanes deadlocks.
//! Or the groups wait in the circle that is the answer, and every assignment deadlocks.
//!
//! The code of the planner knows only arcs and numbers, no steps: what it says about runs rests on laws of `wq_core`.
//! The rules are those of "Plan texts" and "Circle texts" in docs/FORMAT.md. Their reason is that of
//! Documentation/core-api/workqueue.rst, "Guidelines": work items that depend on one another belong on separate
//! workqueues with WQ_MEM_RECLAIM. A plan takes the time of its wait graph and of the ranks.
#![tactic(auto)]

mod answer;
pub mod laws;
mod longest;
mod solving;

pub use answer::Answer;
pub use solving::{solve, unsure_flushes};
