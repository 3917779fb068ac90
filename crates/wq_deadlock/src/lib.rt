//! Verdicts on assignments: safe, or the run by which the lanes hold one another up for good.
//!
//! The layer above relies on this: an assignment that is called safe has no run that ends stuck, and its lanes have
//! ranks that fall along every declared flush. For any other the result is a run that ends stuck, with each item queued
//! once and flushing as declared. Here arcs and steps meet: ranks and circles are those of the wait graph of the lanes,
//! runs are those of the machine. The rule behind both is that of Documentation/core-api/workqueue.rst, "Guidelines":
//! work items that are used during reclaim and depend on one another belong on separate workqueues with WQ_MEM_RECLAIM.
//! A verdict takes the time of the wait graph and its ranks and, if there is a circle, that of its run.
#![tactic(auto)]

mod bare;
mod circles;
mod deciding;
mod hanging;
mod judged;
pub mod laws;
mod outcome;
mod playing;
mod queueing;
mod safety;
mod stuck;
mod workqueues;

pub use bare::{bare_waits, is_on_bare};
pub use circles::{circle_run, own_lanes, run_round};
pub use deciding::verdict;
pub use judged::Judged;
pub use outcome::Verdict;
pub use safety::{are_safe, is_safe};
pub use workqueues::{judge, rescued_graph};
