//! Lines: what is between line feeds, and which part of a line comes before its comment.
//!
//! A line feed (LF, the byte 10) ends a line, and what comes after the last one is a line if it isn't empty. One
//! carriage return (CR, the byte 13) directly before a line feed isn't part of the line. A comment begins at the first
//! `#` of a line and runs to the end of the line. The rules are those of "Lines, words and numbers" in docs/FORMAT.md.
//!
//! Iterating over the lines looks at each byte of the text once, sixteen at a time. The comment of a line is found by
//! `memchr`.

ghost use Rattle.std.specs.Prelude.{◌≡◌, ◌+◌, ◌<◌, ◌≤◌, ◌^◌, ◌∷◌, ◌++◌, [], List, ℕ, length, take, find, nat_lt};
ghost use Rattle.std.specs.Prelude.{option_map, IfSome, IfNone};
ghost use Rattle.std.specs.Iterator.{YieldsFirst, item_count};
ghost use Rattle.wq_text.specs.Lines.{LineView, pieces, taken, line_bytes, lines_of};
ghost use Rattle.wq_text.specs.Comments.{before_comment};
ghost use Rattle.wq_text.specs.Runs.{AllGreater};
ghost use Rattle.wq_text.specs.Words.{words_of, AllInWord, BeginsWithWords};
ghost use Rattle.wq_text.specs.Limits.{first_long_line};

use crate::run::{cut_at, first_feed};
use crate::span::Span;
use crate::word::{Word, Words};
use memchr::memchr;
use std::marker::Model;

/// A line of a text, without its line feed and one CR directly before it. Contracts see its number, its offset and its
/// bytes.
#[derive(Drop)]
pub struct Line<'a> {
    no: u32,
    start: u32,
    /// The length of the line in bytes.
    len: u32,
    /// The text from the first byte of the line on.
    text: &'a [u8],
}

impl<'a> Model for Line<'a> {
    ghost use Rattle.std.specs.Prelude.{length, take, ◌+◌, ◌<◌, ◌≤◌, ◌^◌};
    ghost use Rattle.wq_text.specs.Lines.{LineView};

    ghost Value = { LineView };

    ghost view = { λ l. record { no = l.no; start = l.start; bytes = take l.len l.text.now } };

    ghost invariant = { λ l. (l.len ≤ length l.text.now) × (l.start + l.len < 2 ^ 32) };
}

impl<'a> Line<'a> {
    /// The number of the line, from 1.
    pub fn no(&self) -> u32
        ensures { result ≡ self.now.no }
    {
        self.no
    }

    /// Where the line is in the text, without its line feed and one CR directly before it.
    pub fn span(&self) -> Span
        ensures start { result.start ≡ self.now.start }
        ensures end { result.end ≡ self.now.start + length self.now.bytes }
    {
        Span {
            start: self.start,
            end: self.start + self.len,
        }
    }

    /// The bytes of the line with its comment, without its line feed and one CR directly before it.
    pub fn bytes(&self) -> &'a [u8]
        ensures { result.now ≡ self.now.bytes }
    {
        &self.text[..self.len as usize]
    }

    /// The bytes of the line before its comment, which runs from the first `#` to the end of the line. If there is no
    /// `#`, these are all bytes.
    pub fn content(&self) -> &'a [u8]
        ensures { result.now ≡ before_comment self.now.bytes }
    {
        let bytes = self.bytes();
        match memchr(b'#', bytes) {
            Some(hash) => &bytes[..hash],
            None => bytes,
        }
    }

    /// The words of the line before its comment, in order.
    pub fn words(&self) -> Words<'a>
        ensures { result ≡ words_of self.now }
    {
        Words::of(self.start, self.text, self.len)
    }

    /// The words after the first, if the line begins with `word` and a space: for `item`, the word `a` of `item a # x`.
    /// Otherwise `None`, even if the first word is `word`.
    pub fn words_after(&self, word: &[u8]) -> Option<Words<'a>>
        requires some { 0 < length word.now }
        requires unbroken { AllInWord word.now }
        ensures after { IfSome result (λ words. words_of self.now
            ≡ record { start = self.now.start; bytes = word.now } ∷ words) }
        ensures none { IfNone result (¬ (take (length word.now + 1) self.now.bytes ≡ word.now ++ (32 ∷ []))) }
    {
        let after = self.bytes().strip_prefix(word)?;
        let (first, rest) = after.split_first()?;
        if *first != b' ' {
            return None;
        }
        let begin = word.len() + 1;
        let text = &self.text[begin..];
        Some(Words::of(self.start + begin as u32, text, rest.len() as u32))
    }
}

/// The first piece of some bytes, and what comes after it.
#[derive(Clone, Copy)]
pub(crate) struct Cut<'a> {
    pub(crate) piece: &'a [u8],
    pub(crate) ended: bool,
    pub(crate) rest: &'a [u8],
}

/// Cuts bytes after the first line feed.
pub(crate) fn first_cut<'a>(bytes: &'a [u8]) -> Cut<'a>
    requires { 0 < length bytes.now }
    ensures first { pieces bytes.now
        ≡ record { bytes = result.piece.now; ended = result.ended } ∷ pieces result.rest.now }
    ensures whole { taken (record { bytes = result.piece.now; ended = result.ended }) + length result.rest.now
        ≡ length bytes.now }
    ensures shorter { length result.rest.now < length bytes.now }
    ensures front { result.piece.now ≡ take (length result.piece.now) bytes.now }
{
    match first_feed(bytes) {
        Some(feed) => Cut {
            piece: &bytes[..feed],
            ended: true,
            rest: &bytes[feed + 1..],
        },
        None => Cut {
            piece: bytes,
            ended: false,
            rest: &[],
        },
    }
}

/// The bytes of the line that a piece makes: the piece without one CR directly before its line feed.
pub(crate) fn line_bytes(piece: &[u8], ended: bool) -> &[u8]
    ensures bytes { result.now ≡ line_bytes (record { bytes = piece.now; ended = ended }) }
    ensures no_longer { length result.now ≤ length piece.now }
    ensures front { result.now ≡ take (length result.now) piece.now }
{
    match piece {
        [front @ .., b'\r'] if ended => front,
        _ => piece,
    }
}

/// What follows a word and one space, if the text begins with them.
fn after_word<'a>(text: &'a [u8], word: &[u8]) -> Option<&'a [u8]>
    ensures { IfSome result (λ after. text.now ≡ word.now ++ (32 ∷ after.now)) }
{
    let after = text.strip_prefix(word)?;
    let (first, rest) = after.split_first()?;
    if *first != b' ' {
        return None;
    }
    Some(rest)
}

/// The lines of a text, in order. Contracts see the list of the lines that are left.
#[derive(Drop)]
pub struct Lines<'a> {
    /// How many lines have been yielded.
    before: u32,
    start: u32,
    rest: &'a [u8],
}

impl<'a> Model for Lines<'a> {
    ghost use Rattle.std.specs.Prelude.{List, length, ◌+◌, ◌<◌, ◌^◌};
    ghost use Rattle.wq_text.specs.Lines.{LineView, lines_from, pieces};

    ghost Value = { List LineView };

    ghost view = { λ s. lines_from (s.before + 1) s.start (pieces s.rest.now) };

    ghost invariant = { λ s. (s.before + length s.rest.now < 2 ^ 32) × (s.start + length s.rest.now < 2 ^ 32) };
}

impl<'a> Lines<'a> {
    /// The lines of a whole text.
    pub(crate) fn of(text: &'a [u8]) -> Lines<'a>
        requires { length text.now < 2 ^ 32 }
        ensures { result ≡ lines_of text.now }
    {
        Lines {
            before: 0,
            start: 0,
            rest: text,
        }
    }

    /// A second iterator over the lines that are left.
    pub fn again(&self) -> Lines<'a>
        ensures { result ≡ self.now }
    {
        Lines {
            before: self.before,
            start: self.start,
            rest: self.rest,
        }
    }

    /// The two words after `keyword`, if the next line is `keyword` and two words, with one space between them and no
    /// other byte before its line feed; then the line has been yielded. Otherwise, and perhaps even then, `None`, and
    /// no line has been yielded: `next` yields any line.
    ///
    /// All bytes of the words are greater than `#`, so the line is cut in one pass, sixteen bytes at a time.
    #[inline(always)]
    pub fn next_pair(&mut self, keyword: &[u8]) -> Option<(Word<'a>, Word<'a>)>
        requires plain { AllGreater keyword.now }
        requires some { 0 < length keyword.now }
        ensures pair { IfSome result
            (λ words. BeginsWithWords keyword.now (words.0 ∷ words.1 ∷ []) self.old self.new) }
        ensures none { IfNone result (self.new ≡ self.old) }
    {
        let after = after_word(self.rest, keyword)?;
        let (name, behind) = cut_at(after, b' ')?;
        let (target, rest) = cut_at(behind, b'\n')?;
        let first = self.start + (keyword.len() as u32 + 1);
        let second = first + (name.len() as u32 + 1);
        self.before += 1;
        self.start = second + (target.len() as u32 + 1);
        self.rest = rest;
        Some((Word::of(first, name), Word::of(second, target)))
    }

    /// The word after `keyword`, if the next line is `keyword` and one word; otherwise the same as `next_pair`.
    #[inline(always)]
    pub fn next_single(&mut self, keyword: &[u8]) -> Option<Word<'a>>
        requires plain { AllGreater keyword.now }
        requires some { 0 < length keyword.now }
        ensures single { IfSome result (λ word. BeginsWithWords keyword.now (word ∷ []) self.old self.new) }
        ensures none { IfNone result (self.new ≡ self.old) }
    {
        let after = after_word(self.rest, keyword)?;
        let (name, rest) = cut_at(after, b'\n')?;
        let first = self.start + (keyword.len() as u32 + 1);
        self.before += 1;
        self.start = first + (name.len() as u32 + 1);
        self.rest = rest;
        Some(Word::of(first, name))
    }

    /// The number of the first line with more than `limit` bytes, including its comment.
    pub(crate) fn first_longer_than(self, limit: u32) -> Option<u32>
        ensures { result ≡ option_map (λ (line : LineView). line.no) (first_long_line limit self.entry) }
    {
        for line in self {
            if line.bytes().len() > limit as usize {
                return Some(line.no());
            }
        }
        None
    }
}

impl<'a> Iterator for Lines<'a> {
    type Item = Line<'a>;

    ghost next_gives = { YieldsFirst (λ rest. rest) };

    ghost remaining = { item_count (λ rest. rest) };

    fn next(&mut self) -> Option<Line<'a>> {
        if self.rest.is_empty() {
            return None;
        }
        let cut = first_cut(self.rest);
        let line = Line {
            no: self.before + 1,
            start: self.start,
            len: line_bytes(cut.piece, cut.ended).len() as u32,
            text: self.rest,
        };
        self.start += (self.rest.len() - cut.rest.len()) as u32;
        self.before += 1;
        self.rest = cut.rest;
        Some(line)
    }
}
