//! The wait graphs of a declaration: which group, or which lane of an assignment, waits for which, flush by flush.
//!
//! The layer above relies on this: the arcs of a vertex are the declared flushes that leave it, in order of place, one
//! for each. The rules are those of "Items and groups" in docs/FORMAT.md. An arc says that work items depend on one
//! another, so that they belong on separate workqueues (Documentation/core-api/workqueue.rst, "Guidelines"). Making a
//! graph takes
//!
//!   O(items + vertices + flushes) time and memory.
#![tactic(auto)]

mod arc;
mod building;
mod graph;
pub mod laws;
mod leaving_out;

pub use arc::WaitArc;
pub use building::group_arcs_by_place;
pub use graph::WaitGraph;
