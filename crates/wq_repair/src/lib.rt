//! Repairs of workqueues: which groups have to move, and which workqueues need a rescuer, so that no run ends stuck.
//!
//! What the layer above relies on: the new workqueues are safe, and if any part of the changes is left out, there is a
//! deadlock. Or it says why that can't be: groups that need a rescuer wait in a circle, or too few may move. A change
//! is a group on another workqueue, or a rescuer for a workqueue that had none. The code knows groups, lanes and
//! flushes only; what it says about runs rests on laws of `wq_core`. The rule behind it is that of
//! Documentation/core-api/workqueue.rst, "Guidelines".
#![tactic(auto)]

mod answer;
mod assigned;
mod checking;
mod lanes;
pub mod laws;
mod listing;
mod named;
mod near;
mod needed;
mod placing;
mod plain;
mod repairing;
mod scope;
mod start;
mod wider;

pub use answer::Answer;
pub use repairing::{repair, repair_by};
