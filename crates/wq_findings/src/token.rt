//! Lines and words of a text, and which bytes of its line a word consists of.
//!
//! Each call takes time linear in the length of the line or, if it looks for a line, of the text.

use crate::quoted::Quoted;
use wq_text::{Line, Text, Word};

/// Bytes of a line that are meant: the offset of the first, from 0, and how many there are.
#[derive(Clone, Copy)]
pub struct Mark {
    /// The offset of the first byte.
    pub at: usize,
    /// How many bytes there are.
    pub len: usize,
}

impl Mark {
    /// The place after the last word of a line, where another word should be.
    pub(crate) fn behind(line: &Line<'_>) -> Mark {
        let mut at = 0;
        for word in line.words() {
            at = word.span().end.saturating_sub(line.span().start) as usize;
        }
        Mark { at, len: 1 }
    }
}

/// A word of a line: which bytes of the line it consists of, and these bytes.
#[derive(Clone, Copy)]
pub(crate) struct Token<'a> {
    pub(crate) mark: Mark,
    pub(crate) bytes: &'a [u8],
}

impl<'a> Token<'a> {
    /// This word of the line, as a token.
    pub(crate) fn of(line: &Line<'_>, word: &Word<'a>) -> Token<'a> {
        let span = word.span();
        Token {
            mark: Mark {
                at: span.start.saturating_sub(line.span().start) as usize,
                len: span.end.saturating_sub(span.start) as usize,
            },
            bytes: word.bytes(),
        }
    }

    /// The word as it is in a message.
    pub(crate) fn quoted(self) -> Quoted<'a> {
        Quoted(self.bytes)
    }
}

/// The line with this number, if there is one.
pub fn line_at<'a>(text: &Text<'a>, no: u32) -> Option<Line<'a>> {
    for line in text.lines() {
        if line.no() == no {
            return Some(line);
        }
    }
    None
}

/// The word of a line at this place, counted from 0.
pub(crate) fn word_at<'a>(line: &Line<'a>, place: usize) -> Option<Token<'a>> {
    match line.words().nth(place) {
        Some(word) => Some(Token::of(line, &word)),
        None => None,
    }
}

/// The bytes of the word at this place of a line; empty if there is no such word.
pub(crate) fn bytes_at<'a>(line: &Line<'a>, place: usize) -> &'a [u8] {
    match line.words().nth(place) {
        Some(word) => word.bytes(),
        None => b"",
    }
}

/// The bytes of the first word of a line; empty if it has no word. Empty lines and comments, of which a text may have
/// millions, are told by their first byte.
pub(crate) fn first_word<'a>(line: &Line<'a>) -> &'a [u8] {
    match line.bytes() {
        [] | [b'#', ..] => b"",
        _ => bytes_at(line, 0),
    }
}

/// Whether any line of a text has a word.
pub fn has_words(text: &Text<'_>) -> bool {
    for line in text.lines() {
        if !first_word(&line).is_empty() {
            return true;
        }
    }
    false
}

/// The place of the first word of a line.
pub(crate) fn first_mark(line: &Line<'_>) -> Mark {
    match word_at(line, 0) {
        Some(word) => word.mark,
        None => Mark { at: 0, len: 1 },
    }
}

/// Whether the same word comes earlier on the line, at `place` or after it.
pub(crate) fn stands_before(line: &Line<'_>, place: usize, word: Token<'_>) -> bool {
    for other in line.words().skip(place) {
        let other = Token::of(line, &other);
        if other.mark.at == word.mark.at {
            return false;
        }
        if other.bytes == word.bytes {
            return true;
        }
    }
    false
}
