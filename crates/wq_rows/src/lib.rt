//! Rows: what happened, event by event, and the 12 bytes that hold each.
//!
//! The layers above rely on this: a row is packed into 12 bytes and unpacked again, and no two slices of bytes unpack
//! to the same row. Rows are packed one after the other, and read one at a time. Which histories are legal isn't
//! defined here.
#![tactic(auto)]

mod event;
mod history;
pub mod laws;
mod packing;
mod rows;

pub use event::{Event, Row};
pub use history::{History, MAX_ROWS};
pub use packing::{ROW_LEN, pack, unpack};
pub use rows::Rows;
