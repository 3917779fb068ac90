//! The part of a line that is shown, and the marks below it.
//!
//! Each byte has one column, so the marks are below the bytes that they mean. It takes time linear in the length of
//! what is shown.

ghost use Rattle.std.specs.Prelude.{None};

use crate::hint::Hint;
use crate::quoted::Quoted;
use crate::token::Mark;
use std::fmt;

/// The most columns of a line that are shown.
const MOST_COLUMNS: usize = 100;

/// How many bytes of a line are shown if it is cut at both ends.
const CUT_BYTES: usize = 94;

/// How many bytes are shown before the marked ones.
const BEFORE: usize = 40;

/// What is shown in place of bytes that are cut off at an end.
const CUT: &str = "...";

/// The indent of the line and its marks.
const INDENT: &str = "    ";

/// The part of a line that is shown: the bytes from `start` up to but not including `end`.
#[derive(Clone, Copy)]
struct Window {
    start: usize,
    end: usize,
}

impl Window {
    /// The part that is shown of a line of `len` bytes, around a mark.
    fn round(len: usize, mark: Mark) -> Window {
        if len <= MOST_COLUMNS {
            return Window { start: 0, end: len };
        }
        let start = mark
            .at
            .saturating_sub(BEFORE)
            .min(len.saturating_sub(CUT_BYTES));
        let end = start.saturating_add(CUT_BYTES).min(len);
        Window { start, end }
    }
}

/// The part of a line that is shown, indented.
#[derive(Clone, Copy)]
pub struct Excerpt<'a> {
    before: &'static str,
    bytes: &'a [u8],
    behind: &'static str,
}

impl<'a> Excerpt<'a> {
    /// The part of a line that is shown around a mark.
    pub fn of(line: &'a [u8], mark: Mark) -> Excerpt<'a> {
        let Window { start, end } = Window::round(line.len(), mark);
        Excerpt {
            before: if start > 0 { CUT } else { "" },
            bytes: line.get(start..end).unwrap_or(b""),
            behind: if end < line.len() { CUT } else { "" },
        }
    }
}

impl fmt::Display for Excerpt<'_> {
    ghost output = { λ _. None };

    fn fmt<W: fmt::Write>(&self, f: &mut fmt::Formatter<W>) -> fmt::Result {
        f.write_str(INDENT)?;
        f.write_str(self.before)?;
        Quoted(self.bytes).fmt(f)?;
        f.write_str(self.behind)
    }
}

/// The marks below an excerpt, with the hint after them: some columns before the marks, and some marks.
#[derive(Clone, Copy)]
pub struct Marks<'a> {
    columns: usize,
    width: usize,
    hint: Hint<'a>,
}

impl<'a> Marks<'a> {
    /// The marks below the part that is shown of a line of `len` bytes. There is at least one mark.
    pub fn of(len: usize, mark: Mark, hint: Hint<'a>) -> Marks<'a> {
        let Window { start, end } = Window::round(len, mark);
        let cut = if start > 0 { CUT.len() } else { 0 };
        Marks {
            columns: mark.at.saturating_sub(start).saturating_add(cut),
            width: mark.len.min(end.saturating_sub(mark.at)).max(1),
            hint,
        }
    }
}

impl fmt::Display for Marks<'_> {
    ghost output = { λ _. None };

    fn fmt<W: fmt::Write>(&self, f: &mut fmt::Formatter<W>) -> fmt::Result {
        f.write_str(INDENT)?;
        for _ in 0..self.columns {
            f.write_char(' ')?;
        }
        for _ in 0..self.width {
            f.write_char('^')?;
        }
        if matches!(self.hint, Hint::Nothing) {
            return Ok(());
        }
        f.write_char(' ')?;
        self.hint.fmt(f)
    }
}
