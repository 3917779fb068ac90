//! The groups of a declaration and the assignments of workqueues to them: the last pass, and the terms that every crate
//! above uses.
//!
//! The layer above relies on this: the groups are the partition of the items that the directives name, numbered by
//! first-declared members, or else the error is the first fault. An assignment gives each group one of its workqueues.
//! The rules are those of "Items and groups" in docs/FORMAT.md. A group stands for the work items of one ordered
//! workqueue (`alloc_ordered_workqueue` in include/linux/workqueue.h).
//!
//! Reading groups takes time linear in the length of the text, on average. Queries take constant time.
#![tactic(auto)]

mod assignment;
mod declaration;
mod fault;
mod group_id;
mod groups;
mod lane_id;
pub mod laws;
mod members;
mod numbering;
mod reading;

pub use assignment::{Assignment, MAX_ASSIGNED_LANES};
pub use declaration::Declaration;
pub use fault::GroupError;
pub use group_id::GroupId;
pub use groups::Groups;
pub use lane_id::LaneId;
