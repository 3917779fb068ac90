//! The answers to calls, counted by the thread that made them. A count takes constant time.

use std::alloc::AllocError;
use wq_api::CallError;

/// The calls that are counted.
#[derive(Clone, Copy)]
pub(crate) enum TalliedCall {
    Queue,
    Cancel,
    Flush,
    CancelSync,
    Wait,
    FlushLane,
    WaitAll,
}

/// The words for the calls, in their order.
const WORDS: [&'static str; 7] = [
    "queue", "cancel", "flush", "sync", "wait", "flushwq", "waitall",
];

/// How often a thread was answered what.
#[derive(Drop)]
pub(crate) struct Tally {
    /// For each call: how often it was answered yes, how often no, and how often it
    /// was refused with each number from 60 to 66.
    answers: [[u32; 9]; 7],
}

impl Tally {
    /// No answer.
    pub(crate) fn new() -> Self {
        Tally {
            answers: [[0; 9]; 7],
        }
    }

    /// Counts an answer, or a refusal.
    pub(crate) fn note(&mut self, call: TalliedCall, answer: Result<bool, CallError>) {
        let column = match answer {
            Ok(true) => 0,
            Ok(false) => 1,
            Err(error) => error.code().saturating_sub(58) as usize,
        };
        if let Some(count) = self.answers[call as usize].get_mut(column) {
            *count = count.saturating_add(1);
        }
    }

    /// Adds a line for each call, which says whose answers they are, and when they were given.
    pub(crate) fn put(&self, out: &mut String, seat: usize, when: &str) -> Result<(), AllocError> {
        for (word, counts) in WORDS.iter().zip(self.answers.iter()) {
            write!(out, "seat {seat} {when} {word}")?;
            for count in counts {
                write!(out, " {count}")?;
            }
            out.push('\n')?;
        }
        Ok(())
    }
}
