//! Which line of a declaration declares each of its flushes.
//!
//! A reason may have thousands of waits, so the lines are gone through once. That takes the time of reading the text,
//! and memory linear in the number of lines that declare flushes. The line of a flush is then found by binary search,
//! and the flush in the time of reading its line.

ghost use Rattle.std.specs.Prelude.{◌≡◌, ◌<◌, length, IfSome, IfNone};

use crate::block::Spot;
use std::alloc::{AllocError, Allocator};
use wq_diagnosis::lines_of;
use wq_findings::flush_at;
use wq_text::{Line, Lines, Word};

/// A line that declares flushes.
#[derive(Clone, Copy)]
struct FlushLine {
    /// The number of the line.
    no: u32,
    /// The place of its first flush among all that are declared.
    first: u32,
    /// Where the line begins in the text.
    start: u32,
}

/// The lines that declare flushes, in order.
#[derive(Drop)]
pub struct FlushLines<'a, A: Allocator> {
    text: &'a [u8],
    lines: Vec<FlushLine, A>,
    /// How many flushes they declare.
    flushes: u32,
}

/// The first words of lines that declare flushes.
static FLUSHES: [&[u8]; 4] = [b"flush", b"flushwq", b"flush?", b"flushwq?"];

/// How many flushes a line declares: one for each name after the item's.
fn flushes_on(line: &Line<'_>) -> u32 {
    let mut words = line.words();
    let Some(first) = words.next() else {
        return 0;
    };
    if !FLUSHES.contains(&first.bytes()) {
        return 0;
    }
    let mut flushes: u32 = 0;
    for _ in words.skip(1) {
        flushes = flushes.saturating_add(1);
    }
    flushes
}

/// The item's name, and at which offset of the line it begins, if the next line is `flush?`, `flushwq` or `flushwq?`
/// and two words. The line has been yielded then, and else none.
fn next_of_others<'a>(lines: &mut Lines<'a>) -> Option<(Word<'a>, u32)>
    ensures some { IfSome result (λ _. length lines.new < length lines.old) }
    ensures none { IfNone result (lines.new ≡ lines.old) }
{
    if let Some((item, _)) = lines.next_pair(b"flush?") {
        return Some((item, 7));
    }
    if let Some((item, _)) = lines.next_pair(b"flushwq") {
        return Some((item, 8));
    }
    let (item, _) = lines.next_pair(b"flushwq?")?;
    Some((item, 9))
}

/// Where the next line begins, and how many flushes it declares. The line has been yielded. Most lines have two words
/// or three, with one space between them.
fn next_line(lines: &mut Lines<'_>) -> Option<(u32, u32)>
    ensures { IfSome result (λ _. length lines.new < length lines.old) }
{
    if let Some((item, _)) = lines.next_pair(b"flush") {
        return Some((item.span().start.saturating_sub(6), 1));
    }
    if lines.next_single(b"item").is_some() {
        return Some((0, 0));
    }
    if let Some((item, at)) = next_of_others(lines) {
        return Some((item.span().start.saturating_sub(at), 1));
    }
    let line = lines.next()?;
    Some((line.span().start, flushes_on(&line)))
}

impl<'a, A: Allocator + Copy> FlushLines<'a, A> {
    /// The lines of flushes in the text of a declaration.
    pub fn new(alloc: A, text: &'a [u8]) -> Result<Self, AllocError> {
        let mut found = FlushLines {
            text,
            lines: Vec::new(alloc),
            flushes: 0,
        };
        let mut lines = lines_of(text).lines();
        let mut no: u32 = 0;
        while let Some((start, flushes)) = next_line(&mut lines) {
            no = no.saturating_add(1);
            found.add(no, start, flushes)?;
        }
        Ok(found)
    }

    /// Adds a line that declares so many flushes.
    fn add(&mut self, no: u32, start: u32, flushes: u32) -> Result<(), AllocError> {
        if flushes > 0 {
            let first = self.flushes;
            self.lines.push(FlushLine { no, first, start })?;
            self.flushes = first.saturating_add(flushes);
        }
        Ok(())
    }

    /// The line that declares the flush at this place.
    fn line(&self, place: u32) -> Option<FlushLine> {
        if place >= self.flushes {
            return None;
        }
        let at = match self.lines.binary_search_by_key(&place, |line| line.first) {
            Ok(at) => at,
            Err(after) => after.checked_sub(1)?,
        };
        self.lines.get(at).copied()
    }

    /// The number of the line that declares the flush at this place; 0 if there is none.
    pub(crate) fn line_no(&self, place: u32) -> u32 {
        match self.line(place) {
            Some(line) => line.no,
            None => 0,
        }
    }

    /// The target of the flush at this place, in its line.
    pub(crate) fn spot(&self, place: u32) -> Spot<'a> {
        let Some(FlushLine { no, first, start }) = self.line(place) else {
            return Spot::nowhere();
        };
        let Some(rest) = self.text.get(start as usize..) else {
            return Spot::nowhere();
        };
        match flush_at(&lines_of(rest), place.saturating_sub(first)) {
            Some((line, mark)) => Spot::new(no, line.bytes(), mark),
            None => Spot::nowhere(),
        }
    }
}
