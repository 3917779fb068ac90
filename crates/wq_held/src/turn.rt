//! What a call under the lock comes to: an answer, and which sleepers are woken; or it is too early, and its caller
//! sleeps.
//!
//! For which conditions a caller sleeps, and which of these an event can make true, is said by "Waits" in the specs of
//! `wq_history`. A call that makes none of them true wakes no sleeper. Nothing is computed here.

use wq_history::{Sleepers, Wake};

/// What a call under the lock comes to.
pub enum Turn<T> {
    /// The answer of the call, and which sleepers are woken.
    Answers(T, Wake),
    /// It is too early, and nothing is changed. Its caller sleeps among these until one of them is woken, and calls
    /// again.
    Sleeps(Sleepers),
}
