//! What texts ask of a book or of a runtime, line by line, and what came of it.
//!
//! Each text comes with a declaration, an assignment and a number of rows. What the texts may say and
//! what is printed is in tests/FORMATS.md; no contract says so.

mod answering;
mod asking;
mod asks;
mod book;
mod crew;
mod deed;
mod doer;
mod judged_rows;
mod lane_asks;
mod lines;
mod meeting;
mod ran;
mod requests;
mod scripted;
mod seats;
mod session;
mod sleeping;

pub use answering::answer;
pub use ran::put_contexts;
pub use requests::{Task, TaskText};
