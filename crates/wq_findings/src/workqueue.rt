//! A workqueue in a message, and the lines of workqueues and of flushes in a text.
//!
//! Finding a line takes time linear in the length of the text.

ghost use Rattle.std.specs.Prelude.{None};

use crate::quoted::Quoted;
use crate::token::{Mark, bytes_at, first_mark, first_word, word_at};
use std::fmt;
use wq_decl::Keyword;
use wq_names::name_on;
use wq_text::{Line, Text, number};

/// A workqueue: its number, and its name, which is empty if it has none.
#[derive(Clone, Copy)]
pub struct Workqueue<'a> {
    /// The number of the workqueue.
    pub number: u32,
    /// The name of the workqueue; empty if it has none.
    pub name: Quoted<'a>,
}

impl<'a> Workqueue<'a> {
    /// The workqueue of this line.
    pub(crate) fn of(line: &Line<'a>) -> Workqueue<'a> {
        Workqueue {
            number: number(bytes_at(line, 1)).unwrap_or(0),
            name: Quoted(name_on(line)),
        }
    }

    /// The workqueue on line `no`.
    pub(crate) fn on(text: &Text<'a>, no: u32) -> Workqueue<'a> {
        for line in text.lines() {
            if line.no() == no {
                return Workqueue::of(&line);
            }
        }
        Workqueue {
            number: 0,
            name: Quoted(b""),
        }
    }

    /// Whether the workqueue has a name.
    pub(crate) fn is_named(self) -> bool {
        !self.name.0.is_empty()
    }
}

impl fmt::Display for Workqueue<'_> {
    ghost output = { λ _. None };

    fn fmt<W: fmt::Write>(&self, f: &mut fmt::Formatter<W>) -> fmt::Result {
        write!(f, "workqueue {}", self.number)?;
        if self.is_named() {
            write!(f, " ({})", self.name)?;
        }
        Ok(())
    }
}

/// Whether a word begins the line of a workqueue.
pub(crate) fn is_workqueue(word: &[u8]) -> bool {
    word == b"wq".as_slice() || word == b"norescuer".as_slice()
}

/// The line of a workqueue in the text of an assignment, and its first word.
pub fn workqueue_at<'a>(text: &Text<'a>, number: u16) -> Option<(Line<'a>, Mark)> {
    let mut left = number;
    for line in text.lines() {
        if is_workqueue(first_word(&line)) {
            if left == 0 {
                let mark = first_mark(&line);
                return Some((line, mark));
            }
            left = left.saturating_sub(1);
        }
    }
    None
}

/// Whether a line of a declaration declares flushes.
fn declares_flushes(line: &Line<'_>) -> bool {
    matches!(
        Keyword::of(first_word(line)),
        Some(Keyword::Flush | Keyword::FlushWq | Keyword::FlushUnsure | Keyword::FlushWqUnsure)
    )
}

/// How many flushes a line of flushes declares: one for each name after the item's.
fn flushes_on(line: &Line<'_>) -> usize {
    let mut flushes: usize = 0;
    for _ in line.words().skip(2) {
        flushes = flushes.saturating_add(1);
    }
    flushes
}

/// The line of the flush at this place among all declared flushes, from 0, and the name of its target.
pub fn flush_at<'a>(text: &Text<'a>, place: u32) -> Option<(Line<'a>, Mark)> {
    let mut left = place as usize;
    for line in text.lines() {
        if declares_flushes(&line) {
            let flushes = flushes_on(&line);
            if left < flushes {
                let word = word_at(&line, left.saturating_add(2))?;
                return Some((line, word.mark));
            }
            left = left.saturating_sub(flushes);
        }
    }
    None
}
