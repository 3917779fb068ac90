//! Spans: where something is in a text.
//!
//! Offsets count the bytes of the text from 0, as in "Lines, words and numbers" in docs/FORMAT.md. Making and reading a
//! span takes constant time.

/// A range of bytes of a text, from `start` up to but not including `end`.
#[derive(Clone, Copy, Debug, PartialEq, Eq)]
pub struct Span {
    /// The offset of the first byte.
    pub start: u32,
    /// The offset after the last byte.
    pub end: u32,
}
