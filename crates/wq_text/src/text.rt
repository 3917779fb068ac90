//! Texts within limits, and how a text is refused.
//!
//! The caller sets the limits: those of a declaration aren't those of a certificate (docs/FORMAT.md, "Limits"). Making
//! a text takes at most linear time, and much less if its lines are short compared with their limit. Handing out the
//! text or a part of it takes constant time.

ghost use Rattle.std.specs.Prelude.{◌≡◌, ◌≤◌, List, ℕ, length, slice_range, IfErr, IfOk, None, Some};
ghost use Rattle.wq_text.specs.Lines.{lines_of};
ghost use Rattle.wq_text.specs.Limits.{limit_fault, text_refusal};

use crate::limits::first_long_line;
use crate::line::Lines;
use crate::span::Span;
use std::marker::Model;
use thiserror::Error;

/// Why bytes aren't a text within the limits.
#[derive(Clone, Copy, Debug, PartialEq, Eq, Error)]
pub enum TextError {
    /// There are more bytes than the limit of a text (1, without a line).
    #[error("the text is too long")]
    TextTooLong,
    /// A line has more bytes than the limit of a line (2, with its line). Its comment counts; its line feed and one CR
    /// directly before it don't.
    #[error("line {line} is too long")]
    LineTooLong { line: u32 },
}

impl TextError {
    /// The number of the fault: 1 or 2.
    pub fn code(self) -> u32
        ensures { result ≡ (text_refusal self).code }
    {
        match self {
            TextError::TextTooLong => 1,
            TextError::LineTooLong { .. } => 2,
        }
    }

    /// The line of the fault, from 1, or 0 if no line is meant.
    pub fn line(self) -> u32
        ensures { result ≡ (text_refusal self).line }
    {
        match self {
            TextError::TextTooLong => 0,
            TextError::LineTooLong { line } => line,
        }
    }
}

/// Bytes that can be cut into lines. Contracts see the bytes.
#[derive(Drop)]
pub struct Text<'a> {
    bytes: &'a [u8],
}

impl<'a> Model for Text<'a> {
    ghost use Rattle.std.specs.Prelude.{List, ℕ, length, ◌<◌, ◌^◌};

    ghost Value = { List ℕ };

    ghost view = { λ t. t.bytes.now };

    ghost invariant = { λ t. length t.bytes.now < 2 ^ 32 };
}

impl<'a> Text<'a> {
    /// Makes a text of the bytes: at most `max_text` bytes, with lines of at most `max_line` bytes each. The comment of
    /// a line counts; its line feed and one CR directly before it don't.
    ///
    /// The error is the first fault: `TextTooLong` (1), or else `LineTooLong` (2) with the first line that is too long.
    pub fn new(text: &'a [u8], max_text: u32, max_line: u32) -> Result<Text<'a>, TextError>
        ensures text { IfOk result (λ t. (t ≡ text.now) × (limit_fault max_text max_line text.now ≡ None)) }
        ensures fault { IfErr result (λ e. limit_fault max_text max_line text.now ≡ Some e) }
    {
        if text.len() > max_text as usize {
            return Err(TextError::TextTooLong);
        }
        match first_long_line(text, max_line) {
            Some(line) => Err(TextError::LineTooLong { line }),
            None => Ok(Text { bytes: text }),
        }
    }

    /// The same text, borrowed again.
    pub fn again(&self) -> Text<'a>
        ensures { result ≡ self.now }
    {
        Text { bytes: self.bytes }
    }

    /// All bytes of the text.
    pub fn bytes(&self) -> &'a [u8]
        ensures { result.now ≡ self.now }
    {
        self.bytes
    }

    /// The bytes of a span of the text.
    pub fn at(&self, span: Span) -> &'a [u8]
        requires in_order { span.start ≤ span.end }
        requires within { span.end ≤ length self.now }
        ensures { result.now ≡ slice_range self.now span.start span.end }
    {
        &self.bytes[span.start as usize..span.end as usize]
    }

    /// The lines of the text, in order.
    pub fn lines(&self) -> Lines<'a>
        ensures { result ≡ lines_of self.now }
    {
        Lines::of(self.bytes)
    }
}
