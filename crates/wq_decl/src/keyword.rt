//! The keyword of a line: its first word, which says which directive the line holds.
//!
//! The directives are those of "Directives" in docs/FORMAT.md. All readers of a declaration ask here which of them a
//! line holds; nothing else looks at a first word. Most lines begin with `flush`, `flush?`, `item` or `ordered`,
//! without a blank before it and with a space after it. For these no word is cut: the bytes are compared in place. A
//! call takes time linear in the bytes up to the end of the first word.

ghost use Rattle.std.specs.Prelude.{◌≡◌};
ghost use Rattle.wq_text.specs.Words.{words_of};
ghost use Rattle.wq_decl.specs.Keywords.{keyword_of, keyword_cut};

use wq_text::{Line, Words};

/// The first word of a directive.
#[derive(Clone, Copy, Debug, PartialEq, Eq)]
pub enum Keyword {
    /// `item`, of `Directive::Item`.
    Item,
    /// `flush`, of `Directive::Flush`.
    Flush,
    /// `flushwq`, of `Directive::FlushWq`.
    FlushWq,
    /// `flush?`, of `Directive::Unsure`.
    FlushUnsure,
    /// `flushwq?`, also of `Directive::Unsure`.
    FlushWqUnsure,
    /// `ordered`, of `Directive::Ordered`.
    Ordered,
}

impl Keyword {
    /// The keyword that `word` is, byte by byte.
    pub fn of(word: &[u8]) -> Option<Keyword>
        ensures { result ≡ keyword_of word.now }
    {
        if word == b"item".as_slice() {
            Some(Keyword::Item)
        } else if word == b"flush".as_slice() {
            Some(Keyword::Flush)
        } else if word == b"flushwq".as_slice() {
            Some(Keyword::FlushWq)
        } else if word == b"flush?".as_slice() {
            Some(Keyword::FlushUnsure)
        } else if word == b"flushwq?".as_slice() {
            Some(Keyword::FlushWqUnsure)
        } else if word == b"ordered".as_slice() {
            Some(Keyword::Ordered)
        } else {
            None
        }
    }
}

/// Cuts the first word of a line, and looks up which keyword it is.
#[inline(always)]
fn cut_first<'a>(line: &Line<'a>) -> Option<(Option<Keyword>, Words<'a>)>
    ensures { result ≡ keyword_cut (words_of line.now) }
{
    let mut words = line.words();
    let first = words.next()?;
    Some((Keyword::of(first.bytes()), words))
}

/// As `cut_keyword`, for a line that doesn't begin with `flush` and a space.
#[inline(always)]
fn cut_other<'a>(line: &Line<'a>) -> Option<(Option<Keyword>, Words<'a>)>
    ensures { result ≡ keyword_cut (words_of line.now) }
{
    if let Some(words) = line.words_after(b"item") {
        return Some((Some(Keyword::Item), words));
    }
    if let Some(words) = line.words_after(b"ordered") {
        return Some((Some(Keyword::Ordered), words));
    }
    if let Some(words) = line.words_after(b"flush?") {
        return Some((Some(Keyword::FlushUnsure), words));
    }
    cut_first(line)
}

/// The first word of a line as a keyword, if it is one, and the words after it; `None` if the line has no word before
/// its comment.
#[inline(always)]
pub fn cut_keyword<'a>(line: &Line<'a>) -> Option<(Option<Keyword>, Words<'a>)>
    ensures { result ≡ keyword_cut (words_of line.now) }
{
    match line.words_after(b"flush") {
        Some(words) => Some((Some(Keyword::Flush), words)),
        None => cut_other(line),
    }
}
