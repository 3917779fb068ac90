//! The core machine: what may happen, however short memory is, and what it does.
//!
//! What the layer above relies on: a step is made exactly where it is lawful, with its effect. Each lane
//! is a workqueue with WQ_MEM_RECLAIM, whose execution contexts are its rescuer and, unless it runs its
//! items in order, up to 8 helpers (Documentation/core-api/workqueue.rst, "WQ_MEM_RECLAIM"). The machine
//! knows only lists of steps: no graph, no rank and no chain. A step takes time in the logarithm of the
//! number of entries that are pending on a lane, or of the flushes of an item, and a cancellation moves
//! entries. Questions about all lanes take time in the number of these and of their helpers.
#![tactic(auto)]

mod assigned;
mod building;
mod entry;
pub mod going_on_laws;
mod lane;
mod lanes;
pub mod laws;
mod machine;
mod pending;
mod questions;
pub mod reading_laws;
mod step;
mod targets;
mod work;
mod workqueues;

pub use assigned::Assigned;
pub use entry::{Entry, Running, Waiting};
pub use lane::{Lane, LaneShape, MAX_HELPERS};
pub use lanes::Lanes;
pub use machine::Core;
pub use step::{Context, HelpStep, RunError, Step, StepError};
pub use workqueues::Workqueues;
