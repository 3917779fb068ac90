//! Names of workqueues: what the comments of an assignment text call them; and the messages in which standard error
//! speaks of items and workqueues.
//!
//! The layers above rely on this: the name of a workqueue is the comment of its line up to the first comma, if that can
//! be a name. The rule is that of "Names of workqueues" in docs/FORMAT.md. Names are for people: no verdict depends on
//! them. Reading them takes time linear in the length of the text, and memory linear in the number of workqueues.
#![tactic(auto)]

mod comment;
pub mod laws;
pub mod messages;
mod names;

pub use comment::comment_body;
pub use names::{MAX_NAME, name_at, name_on, workqueue_names};
