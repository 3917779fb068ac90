//! What is wrong on a line of a declaration that is refused, and what was most likely meant.
//!
//! The refusals are those of "Refusals" in docs/FORMAT.md. It takes time linear in the length of the text; an unknown
//! name is compared with each name of the text.

use crate::finding::Finding;
use crate::guess::{Guess, ZERO_BYTE, begins_comment, encoding_hint, guess_at, has_separator};
use crate::hint::Hint;
use crate::names::{LineNames, declared_on, nearest};
use crate::quoted::Quoted;
use crate::token::{Mark, Token, bytes_at, first_mark, line_at, stands_before};
use crate::what::What;
use std::alloc::{AllocError, Allocator};
use wq_commands::MAX_DECLARATION_LINE;
use wq_decl::{Keyword, MAX_NAME, is_name};
use wq_text::{Line, Text};

/// What is wrong in a declaration that is refused with the number `code` for line `no`.
///
/// The only error is out of memory (20).
pub fn in_declaration<'a, A: Allocator + Copy>(
    alloc: A,
    text: &Text<'a>,
    code: u32,
    no: u32,
) -> Result<Finding<'a>, AllocError> {
    in_mended(alloc, text, text, code, no)
}

/// As `in_declaration`, for a declaration that was mended. Other lines that a hint names are lines of `own`.
pub fn in_mended<'a, A: Allocator + Copy>(
    alloc: A,
    text: &Text<'a>,
    own: &Text<'a>,
    code: u32,
    no: u32,
) -> Result<Finding<'a>, AllocError> {
    match line_at(text, no) {
        Some(line) => on_line(alloc, text, own, &line, code),
        None => Ok(Finding::whole(What::Said("the declaration has more than 1,048,576 bytes"))),
    }
}

/// What is wrong on this line of a declaration that is refused with the number `code` for it.
fn on_line<'a, A: Allocator + Copy>(
    alloc: A,
    text: &Text<'a>,
    own: &Text<'a>,
    line: &Line<'a>,
    code: u32,
) -> Result<Finding<'a>, AllocError> {
    match code {
        4 => unknown_word(alloc, text, line),
        8 => unknown_item(alloc, text, own, line),
        11 => grouped_twice(alloc, text, line),
        _ => Ok(on_this_line(own, line, code)),
    }
}

/// What is wrong on this line, for a refusal whose explanation takes no memory.
fn on_this_line<'a>(text: &Text<'a>, line: &Line<'a>, code: u32) -> Finding<'a> {
    match code {
        2 => Finding::too_long(
            line,
            MAX_DECLARATION_LINE as usize,
            "the line has more than 4,096 bytes",
        ),
        3 => bad_byte(line),
        5 => missing_name(line),
        6 => bad_name(line),
        7 => item_twice(text, line),
        9 => at_first_word(line, "there are more than 4,096 items"),
        10 => at_first_word(line, "with this line there are more than 16,384 flushes"),
        12 => extra_word(line),
        _ => Finding::whole(What::Said("the line is refused")),
    }
}

/// What is wrong with a line, marked at its first word.
fn at_first_word<'a>(line: &Line<'a>, what: &'static str) -> Finding<'a> {
    Finding::marked(first_mark(line), What::Said(what), Hint::Nothing)
}

/// Whether a byte may be before a comment.
fn may_stand(byte: u8) -> bool {
    matches!(byte, b'\t' | b' '..=b'~')
}

/// The hint for a byte that may not be before a comment: what it most likely is.
fn byte_hint(line: &Line<'_>, at: usize) -> &'static str {
    if at == 0
        && let Some(said) = encoding_hint(line.bytes())
    {
        return said;
    }
    match line.bytes().get(at..) {
        Some([0, ..]) => ZERO_BYTE,
        Some([b'\r', ..]) => "a carriage return may come only before a line feed",
        Some([0x80..=0xFF, ..]) => "only comments may have bytes beyond ASCII",
        _ => "a control character",
    }
}

/// The first byte of a line that may not be before the comment.
fn bad_byte<'a>(line: &Line<'a>) -> Finding<'a> {
    for (at, byte) in line.content().iter().enumerate() {
        if !may_stand(*byte) {
            let hint = Hint::Said(byte_hint(line, at));
            return Finding::marked(Mark { at, len: 1 }, What::BadByte(*byte), hint);
        }
    }
    Finding::whole(What::Said("a byte before the comment is neither TAB nor printable ASCII"))
}

/// A first word that isn't a directive.
fn unknown_word<'a, A: Allocator + Copy>(
    alloc: A,
    text: &Text<'a>,
    line: &Line<'a>,
) -> Result<Finding<'a>, AllocError> {
    let word = bytes_at(line, 0);
    let hint = directive_hint(alloc, text, word, bytes_at(line, 1))?;
    let what = What::NoDirective(Quoted(word));
    Ok(Finding::marked(first_mark(line), what, hint))
}

/// The hint for a first word that isn't a directive, before the word `second`: what it was most likely meant to be.
fn directive_hint<A: Allocator + Copy>(
    alloc: A,
    text: &Text<'_>,
    word: &[u8],
    second: &[u8],
) -> Result<Hint<'static>, AllocError> {
    Ok(match guess_at(alloc, text, word, second)? {
        Guess::Comment => Hint::COMMENT,
        Guess::Call(hint) | Guess::Mark(hint) => hint,
        Guess::OtherText(text) => Hint::LooksLike(text),
        Guess::OtherLine(text) => Hint::OwnFile(text),
        Guess::Directive(directive) => Hint::Directive(directive),
        Guess::Unknown => Hint::Said("a line begins with `item`, `flush`, `flushwq` or `ordered`"),
    })
}

/// The form of the lines that begin like this one.
fn form_of(line: &Line<'_>) -> &'static str {
    match Keyword::of(bytes_at(line, 0)) {
        Some(Keyword::Item) => "item NAME",
        Some(Keyword::FlushWq) => "flushwq NAME ITEM",
        Some(Keyword::FlushUnsure) => "flush? NAME TARGET",
        Some(Keyword::FlushWqUnsure) => "flushwq? NAME ITEM",
        Some(Keyword::Ordered) => "ordered NAME..",
        Some(Keyword::Flush) | None => "flush NAME TARGET..",
    }
}

/// A line that ends where a name should be.
fn missing_name<'a>(line: &Line<'a>) -> Finding<'a> {
    let what = What::Said("a name is missing");
    Finding::marked(Mark::behind(line), what, Hint::Form(form_of(line)))
}

/// An `item` line with more than one name, or a `flushwq`, `flush?` or `flushwq?` line with more than two.
fn extra_word<'a>(line: &Line<'a>) -> Finding<'a> {
    let (at, what, hint) = match Keyword::of(bytes_at(line, 0)) {
        Some(Keyword::FlushWq) => (
            3,
            "a `flushwq` line has two names",
            "each workqueue has a `flushwq` line of its own",
        ),
        Some(Keyword::FlushUnsure) => (
            3,
            "a `flush?` line has two names",
            "one line is one question: each target has a line of its own",
        ),
        Some(Keyword::FlushWqUnsure) => (
            3,
            "a `flushwq?` line has two names",
            "one line is one question: each target has a line of its own",
        ),
        Some(Keyword::Item | Keyword::Flush | Keyword::Ordered) | None => (
            2,
            "an `item` line has one name",
            "each item has an `item` line of its own",
        ),
    };
    let hint = if begins_comment(bytes_at(line, at)) {
        Hint::COMMENT
    } else {
        misplaced_mark(line, bytes_at(line, 1)).unwrap_or(Hint::Said(hint))
    };
    Finding::at_word(line, at, What::Said(what), hint)
}

/// Why a word isn't a name.
fn name_hint(word: &[u8]) -> Hint<'static> {
    if begins_comment(word) {
        Hint::COMMENT
    } else if word.len() > MAX_NAME {
        Hint::Said("a name has at most 63 bytes")
    } else if has_separator(word) {
        Hint::BLANKS
    } else {
        Hint::Said("a name consists of letters, digits, `_`, `-` and `.`")
    }
}

/// Which word of a line the mark of this word belongs to, if it is a line of flushes and the word has such a mark.
fn misplaced_mark(line: &Line<'_>, word: &[u8]) -> Option<Hint<'static>> {
    if !word.starts_with(b"?") && !word.ends_with(b"?") {
        return None;
    }
    match Keyword::of(bytes_at(line, 0)) {
        Some(Keyword::Flush | Keyword::FlushUnsure) => Some(Hint::MARK_OF_FLUSH),
        Some(Keyword::FlushWq | Keyword::FlushWqUnsure) => Some(Hint::MARK_OF_FLUSHWQ),
        Some(Keyword::Item | Keyword::Ordered) | None => None,
    }
}

/// The first word of a line that should be a name and isn't one.
fn bad_name<'a>(line: &Line<'a>) -> Finding<'a> {
    for word in line.words().skip(1) {
        if !is_name(word.bytes()) {
            let word = Token::of(line, &word);
            let hint = misplaced_mark(line, word.bytes).unwrap_or(name_hint(word.bytes));
            return Finding::marked(word.mark, What::NoName(word.quoted()), hint);
        }
    }
    Finding::whole(What::Said("a word of the line isn't a name"))
}

/// An item that is declared twice.
fn item_twice<'a>(text: &Text<'a>, line: &Line<'a>) -> Finding<'a> {
    let name = bytes_at(line, 1);
    let hint = match declared_on(text, name) {
        Some(first) => Hint::FirstOn(first),
        None => Hint::Nothing,
    };
    Finding::at_word(line, 1, What::DeclaredTwice(Quoted(name)), hint)
}

/// A name that no line above declares.
fn unknown_item<'a, A: Allocator + Copy>(
    alloc: A,
    text: &Text<'a>,
    own: &Text<'a>,
    line: &Line<'a>,
) -> Result<Finding<'a>, AllocError> {
    let items = LineNames::above(alloc, text, Keyword::Item, line.no())?;
    match not_above(&items, line) {
        Some(word) => undeclared(alloc, own, line, word),
        None => Ok(Finding::whole(What::Said("no line above declares a name of this line"))),
    }
}

/// The first name of a line that isn't among the items above.
pub(crate) fn not_above<'a, A: Allocator + Copy>(
    items: &LineNames<'a, A>,
    line: &Line<'a>,
) -> Option<Token<'a>> {
    for word in line.words().skip(1) {
        if items.line_of(word.bytes()).is_none() {
            return Some(Token::of(line, &word));
        }
    }
    None
}

/// A word that isn't the name of an item declared above.
fn undeclared<'a, A: Allocator + Copy>(
    alloc: A,
    text: &Text<'a>,
    line: &Line<'a>,
    word: Token<'a>,
) -> Result<Finding<'a>, AllocError> {
    let hint = undeclared_hint(alloc, text, line, word.bytes)?;
    let what = What::NotAbove(Quoted(word.bytes));
    Ok(Finding::marked(word.mark, what, hint))
}

/// Where a name is declared that isn't declared above, or which name was most likely meant.
fn undeclared_hint<'a, A: Allocator + Copy>(
    alloc: A,
    text: &Text<'a>,
    line: &Line<'a>,
    word: &'a [u8],
) -> Result<Hint<'a>, AllocError> {
    if let Some(below) = declared_on(text, word) {
        return Ok(Hint::Below(below));
    }
    Ok(match nearest(alloc, text, word)? {
        Some(item) => Hint::NearOn(Quoted(item.name), item.line),
        None if is_flushed_whole(line, word) => Hint::OF_WORKQUEUE,
        None => Hint::Declare(Quoted(word)),
    })
}

/// Whether a word stands for the workqueue that a `flushwq` or `flushwq?` line flushes.
fn is_flushed_whole(line: &Line<'_>, word: &[u8]) -> bool {
    matches!(
        Keyword::of(bytes_at(line, 0)),
        Some(Keyword::FlushWq | Keyword::FlushWqUnsure)
    ) && bytes_at(line, 2) == word
        && bytes_at(line, 1) != word
}

/// A name on two `ordered` lines, or twice on one.
fn grouped_twice<'a, A: Allocator + Copy>(
    alloc: A,
    text: &Text<'a>,
    line: &Line<'a>,
) -> Result<Finding<'a>, AllocError> {
    let above = LineNames::above(alloc, text, Keyword::Ordered, line.no())?;
    Ok(ordered_twice(&above, line))
}

/// The first name of an `ordered` line that is also on a line above, or earlier on the same line.
fn ordered_twice<'a, A: Allocator + Copy>(
    above: &LineNames<'a, A>,
    line: &Line<'a>,
) -> Finding<'a> {
    for word in line.words().skip(1) {
        let word = Token::of(line, &word);
        if let Some(first) = above.line_of(word.bytes) {
            return Finding::marked(
                word.mark,
                What::OnTwoLines(word.quoted()),
                Hint::FirstOn(first),
            );
        }
        if stands_before(line, 1, word) {
            return Finding::twice_on_line(word);
        }
    }
    Finding::whole(What::Said("a name is on two `ordered` lines"))
}
