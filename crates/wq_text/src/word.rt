//! Words: the longest runs of bytes other than space and TAB.
//!
//! The rule is that of "Lines, words and numbers" in docs/FORMAT.md. A `#` ends the word before it and the words of its
//! line, so the comment isn't searched for first. Blanks are looked at one by one, the bytes of a word sixteen at a
//! time.

ghost use Rattle.std.specs.Prelude.{◌≡◌, ◌+◌, ◌<◌, ◌≤◌, ◌^◌, ◌⊎◌, true, [], ◌++◌, length, take};
ghost use Rattle.std.specs.List.{prefix_len};
ghost use Rattle.std.specs.Iterator.{YieldsFirst, item_count};
ghost use Rattle.wq_text.specs.Comments.{before_comment};
ghost use Rattle.wq_text.specs.Words.{words_from, is_blank, in_word, begins_word, AllBlank, AllInWord, EndsAtOnce};

use crate::run::greater_at;
use crate::span::Span;
use std::marker::Model;

/// A word of a line. Contracts see its offset in the text and its bytes.
#[derive(Drop)]
pub struct Word<'a> {
    start: u32,
    bytes: &'a [u8],
}

impl<'a> Model for Word<'a> {
    ghost use Rattle.std.specs.Prelude.{length, ◌+◌, ◌<◌, ◌^◌};
    ghost use Rattle.wq_text.specs.Words.{WordView};

    ghost Value = { WordView };

    ghost view = { λ w. record { start = w.start; bytes = w.bytes.now } };

    ghost invariant = { λ w. w.start + length w.bytes.now < 2 ^ 32 };
}

impl<'a> Word<'a> {
    /// The word of these bytes, at this offset.
    pub(crate) fn of(start: u32, bytes: &'a [u8]) -> Word<'a>
        requires { start + length bytes.now < 2 ^ 32 }
        ensures { result ≡ record { start = start; bytes = bytes.now } }
    {
        Word { start, bytes }
    }

    /// The bytes of the word.
    pub fn bytes(&self) -> &'a [u8]
        ensures { result.now ≡ self.now.bytes }
    {
        self.bytes
    }

    /// Where the word is in the text.
    pub fn span(&self) -> Span
        ensures start { result.start ≡ self.now.start }
        ensures end { result.end ≡ self.now.start + length self.now.bytes }
    {
        Span {
            start: self.start,
            end: self.start + self.bytes.len() as u32,
        }
    }

    /// The same word, borrowed again.
    pub fn again(&self) -> Word<'a>
        ensures { result ≡ self.now }
    {
        Word {
            start: self.start,
            bytes: self.bytes,
        }
    }
}

/// Whether a byte separates words: a space or a TAB. Most bytes of a line are greater, so one comparison tells.
fn is_blank(byte: u8) -> bool
    ensures { result ≡ is_blank byte }
{
    byte <= b' ' && (byte == b' ' || byte == b'\t')
}

/// Whether a byte may be in a word: it is neither a blank nor the `#` of a comment. Most bytes of a line are greater
/// than these, so one comparison tells.
fn in_word(byte: u8) -> bool
    ensures { result ≡ in_word byte }
{
    byte > b'#' || !(byte == b' ' || byte == b'\t' || byte == b'#')
}

/// How many bytes at the front are blanks.
fn blanks_in_front(bytes: &[u8]) -> usize
    ensures { result ≡ prefix_len is_blank bytes.now }
{
    for (len, byte) in bytes.iter().enumerate() {
        if !is_blank(*byte) {
            return len;
        }
    }
    bytes.len()
}

/// The length of the word at the front of the first `left` bytes of a text. It looks at sixteen bytes at a time, so it
/// may look past `left`; what it finds there doesn't count.
fn word_in_front(text: &[u8], left: usize) -> usize
    requires { left ≤ length text.now }
    ensures { result ≡ prefix_len in_word (take left text.now) }
{
    let mut len = 0;
    while len < left {
        len += greater_at(text, len);
        if len >= left {
            return left;
        }
        if !in_word(text[len]) {
            return len;
        }
        len += 1;
    }
    left
}

/// Separates the blanks at the front from what follows them.
fn split_blanks(bytes: &[u8]) -> (&[u8], &[u8])
    ensures whole { bytes.now ≡ result.0.now ++ result.1.now }
    ensures blank { AllBlank result.0.now }
    ensures longest { begins_word result.1.now ≡ true ⊎ (result.1.now ≡ []) }
{
    let len = blanks_in_front(bytes);
    bytes.split_at(len)
}

/// Separates the word at the front of `bytes` from what follows it. The word is empty if a comment or the end comes at
/// once. `text` begins with `bytes`.
fn split_word<'a>(bytes: &'a [u8], text: &[u8]) -> (&'a [u8], &'a [u8])
    requires { bytes.now ≡ take (length bytes.now) text.now }
    ensures whole { bytes.now ≡ result.0.now ++ result.1.now }
    ensures unbroken { AllInWord result.0.now }
    ensures longest { EndsAtOnce result.1.now }
{
    let len = word_in_front(text, bytes.len());
    bytes.split_at(len)
}

/// The words of a line, in order. Contracts see the list of the words that are left.
#[derive(Drop)]
pub struct Words<'a> {
    start: u32,
    /// How many bytes of the line are left.
    left: u32,
    /// The text from the first of these bytes on, including what follows the line.
    text: &'a [u8],
}

impl<'a> Model for Words<'a> {
    ghost use Rattle.std.specs.Prelude.{List, length, take, ◌+◌, ◌<◌, ◌≤◌, ◌^◌};
    ghost use Rattle.wq_text.specs.Comments.{before_comment};
    ghost use Rattle.wq_text.specs.Words.{WordView, words_from};

    ghost Value = { List WordView };

    ghost view = { λ s. words_from s.start (before_comment (take s.left s.text.now)) };

    ghost invariant = { λ s. (s.left ≤ length s.text.now) × (s.start + s.left < 2 ^ 32) };
}

impl<'a> Words<'a> {
    /// The words of the first `left` bytes of `text`, before their comment. The first byte is at offset `start`.
    pub(crate) fn of(start: u32, text: &'a [u8], left: u32) -> Words<'a>
        requires within { left ≤ length text.now }
        requires few { start + left < 2 ^ 32 }
        ensures { result ≡ words_from start (before_comment (take left text.now)) }
    {
        Words { start, left, text }
    }

    /// A second iterator over the words that are left. There are fewer than 2^32.
    pub fn again(&self) -> Words<'a>
        ensures same { result ≡ self.now }
        ensures few { length self.now < 2 ^ 32 }
    {
        Words {
            start: self.start,
            left: self.left,
            text: self.text,
        }
    }
}

impl<'a> Iterator for Words<'a> {
    type Item = Word<'a>;

    ghost next_gives = { YieldsFirst (λ rest. rest) };

    ghost remaining = { item_count (λ rest. rest) };

    fn next(&mut self) -> Option<Word<'a>> {
        let (gap, rest) = split_blanks(&self.text[..self.left as usize]);
        let text = &self.text[gap.len()..];
        let (bytes, rest) = split_word(rest, text);
        if bytes.is_empty() {
            return None;
        }
        let start = self.start + gap.len() as u32;
        self.start = start + bytes.len() as u32;
        self.left = rest.len() as u32;
        self.text = &text[bytes.len()..];
        Some(Word { start, bytes })
    }
}
