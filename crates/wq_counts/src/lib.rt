//! Counts of rows, by item or lane, kind and answer.
//!
//! The layers above rely on this: a row raises exactly one count, or none if it is a start; the counts of two runs of
//! rows are added index by index; and two lists of counts are equal exactly if each count is. So callers can count
//! their own rows, and compare the sums of their counts with those of a whole history.
#![tactic(auto)]

mod counts;
mod kind;
pub mod laws;

pub use counts::{COUNTS_EACH, Counts};
pub use kind::{Kind, LaneKind};
