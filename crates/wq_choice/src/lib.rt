//! Which groups stay on their lanes in a repair: a choice that nothing has to trust.
//!
//! No call here has a contract about what it finds, so nothing is proved of it but that it is safe and ends.
//! `wq_repair` checks each choice in one pass along the waits, and if it is wrong, makes a plain one of its own. A
//! wrong choice costs time or changes, never truth.
//!
//! The vertices are groups. Those that become one are a part, which waits for all for which one of them waits.
#![tactic(auto)]

mod bits;
mod choosing;
mod keeping;
mod largest;
mod parts;
mod sharing;
mod vertex_lists;

pub use choosing::{Choice, Chooser, LargestSets};
pub use sharing::shared_lanes;
