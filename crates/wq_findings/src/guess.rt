//! What a word was most likely meant to be.
//!
//! `strsim` tells how alike two words are, in time of the product of their lengths. Apart from that, a call takes time
//! linear in the length of the word, and `guess_at` in the length of the text.

use crate::hint::Hint;
use crate::quoted::Quoted;
use crate::token::first_word;
use std::alloc::{AllocError, Allocator};
use std::str;
use strsim::osa_distance;
use wq_decl::Keyword;
use wq_text::Text;

/// What a zero byte most likely is.
pub(crate) const ZERO_BYTE: &str = "a zero byte: is this a text, and not UTF-16?";

/// A word as it is shown, with one letter for each byte.
pub(crate) fn letters<A: Allocator + Copy>(alloc: A, word: &[u8]) -> Result<String<A>, AllocError> {
    Quoted(word).to_string(alloc)
}

/// The edit distance of two words, if they are alike: how many letters have to be inserted, deleted, replaced or
/// swapped with the next one to get from one to the other. For example, it is 1 for `flsuh` and `flush`. Words
/// are alike if it is at most one in three letters (one in a short word) and less than the number of letters.
pub(crate) fn edits_between<A: Allocator + Copy>(
    alloc: A,
    word: &str,
    known: &[u8],
) -> Result<Option<usize>, AllocError> {
    let Ok(known) = str::from_utf8(known) else {
        return Ok(None);
    };
    if word.eq_ignore_ascii_case(known) {
        return Ok(Some(0));
    }
    let most = (word.len() / 3).max(1);
    if word.len().abs_diff(known.len()) > most {
        return Ok(None);
    }
    let edits = osa_distance(alloc, word, known)?;
    Ok(if edits <= most && edits < word.len() {
        Some(edits)
    } else {
        None
    })
}

/// Whether a word begins a comment in another language.
pub(crate) fn begins_comment(word: &[u8]) -> bool {
    matches!(
        word,
        [b'/', b'/' | b'*', ..] | [b'*' | b';' | b'%', ..] | [b'-', b'-', ..]
    )
}

/// The hint for a line that begins with a byte order mark, or that is UTF-16.
pub(crate) fn encoding_hint(line: &[u8]) -> Option<&'static str> {
    match line {
        [0xEF, 0xBB, 0xBF, ..] => Some("a byte order mark: save the file without it"),
        [0xFF, 0xFE, ..] | [0xFE, 0xFF, ..] => Some("this is UTF-16: save the file as ASCII"),
        _ => None,
    }
}

/// The hint for a line whose bytes aren't plain ASCII and whose first word is `word`.
fn unread_hint(line: &[u8], word: &[u8]) -> Option<&'static str> {
    if let Some(said) = encoding_hint(line) {
        return Some(said);
    }
    if word.iter().any(|byte| *byte == 0) {
        Some(ZERO_BYTE)
    } else {
        None
    }
}

/// The hint for the first word of a line that isn't plain ASCII, or begins a comment in another language.
pub(crate) fn foreign_hint(line: &[u8], word: &[u8]) -> Option<Hint<'static>> {
    if let Some(said) = unread_hint(line, word) {
        return Some(Hint::Said(said));
    }
    if begins_comment(word) {
        Some(Hint::COMMENT)
    } else {
        None
    }
}

/// The hint for a call of the kernel, written in the place of a directive. `wait`, `queue` and `cancel` are such calls
/// only among directives; elsewhere they are steps of a run.
pub(crate) fn call_hint(word: &[u8], is_among_directives: bool) -> Option<Hint<'static>> {
    let Ok(word) = str::from_utf8(word) else {
        return None;
    };
    match word {
        "waits" | "wait_for" | "waits_for" | "flush_work" | "cancel_work_sync" => Some(Hint::FLUSH),
        "flush_workqueue" | "drain_workqueue" | "destroy_workqueue" => Some(Hint::FLUSHWQ),
        "queues" | "queue_work" | "schedule_work" => Some(Hint::QUEUES),
        "cancels" | "cancel_work" => Some(Hint::CANCELS),
        "wait" if is_among_directives => Some(Hint::FLUSH),
        "queue" if is_among_directives => Some(Hint::QUEUES),
        "cancel" if is_among_directives => Some(Hint::CANCELS),
        _ => None,
    }
}

/// Which kind of text has lines that begin with this word.
pub(crate) fn text_with(word: &[u8]) -> Option<&'static str> {
    if Keyword::of(word).is_some() {
        return Some("a declaration");
    }
    let Ok(word) = str::from_utf8(word) else {
        return None;
    };
    match word {
        "plan" | "wq" | "chain" => Some("a plan or an assignment"),
        "norescuer" => Some("an assignment"),
        "circle" => Some("a circle"),
        "run"
        | "unsure"
        | "queue"
        | "cancel"
        | "start"
        | "wait"
        | "over"
        | "waitwq"
        | "overwq"
        | "finish" => Some("a run"),
        "refused" => Some("a refusal, written here in place of an answer"),
        _ => None,
    }
}

/// What the first word of a line of a declaration most likely is, if it isn't a directive.
#[derive(Clone, Copy)]
pub(crate) enum Guess {
    /// The word begins a comment in another language.
    Comment,
    /// A call of the kernel, and the hint for it.
    Call(Hint<'static>),
    /// A mark of unsureness in a place where none belongs, and the hint for it.
    Mark(Hint<'static>),
    /// The word begins a line of another kind of text, and no line of this text begins with a directive.
    OtherText(&'static str),
    /// The word begins a line of another kind of text, but the file is one of a declaration.
    OtherLine(&'static str),
    /// This directive is meant.
    Directive(&'static str),
    /// Nothing is known.
    Unknown,
}

/// The hint for a mark of unsureness that belongs to the first word of a line, or to no line of this kind. `word` and
/// `second` are the first two words of the line.
fn mark_hint(word: &[u8], second: &[u8]) -> Option<Hint<'static>> {
    if word == b"?flush".as_slice() {
        return Some(Hint::Directive("flush?"));
    }
    if word == b"?flushwq".as_slice() {
        return Some(Hint::Directive("flushwq?"));
    }
    if word == b"item?".as_slice() || word == b"ordered?".as_slice() {
        return Some(Hint::ONLY_FLUSHES);
    }
    if word != b"?".as_slice() {
        return None;
    }
    Some(if second == b"flush".as_slice() {
        Hint::Directive("flush?")
    } else if second == b"flushwq".as_slice() {
        Hint::Directive("flushwq?")
    } else {
        Hint::UNDECIDED
    })
}

/// What the first word of a line of this declaration most likely is, if it isn't a directive. `second` is the word
/// after it.
pub(crate) fn guess_at<A: Allocator + Copy>(
    alloc: A,
    text: &Text<'_>,
    word: &[u8],
    second: &[u8],
) -> Result<Guess, AllocError> {
    if begins_comment(word) {
        return Ok(Guess::Comment);
    }
    let is_among_directives = has_directive(text);
    if let Some(hint) = call_hint(word, is_among_directives) {
        return Ok(Guess::Call(hint));
    }
    if let Some(hint) = mark_hint(word, second) {
        return Ok(Guess::Mark(hint));
    }
    if let Some(text) = text_with(word) {
        return Ok(other_text(text, is_among_directives));
    }
    Ok(match directive_like(alloc, word)? {
        Some(directive) => Guess::Directive(directive),
        None => Guess::Unknown,
    })
}

/// What the first word of a line of another kind of text is.
fn other_text(text: &'static str, is_among_directives: bool) -> Guess {
    if is_among_directives {
        Guess::OtherLine(text)
    } else {
        Guess::OtherText(text)
    }
}

/// Whether a line of a text begins with a directive.
fn has_directive(text: &Text<'_>) -> bool {
    for line in text.lines() {
        if Keyword::of(first_word(&line)).is_some() {
            return true;
        }
    }
    false
}

/// Whether a word holds a byte that separates names in other languages.
pub(crate) fn has_separator(word: &[u8]) -> bool {
    word.iter().any(|byte| matches!(*byte, b',' | b';'))
}

/// The directive that a word was most likely meant to be.
pub(crate) fn directive_like<A: Allocator + Copy>(
    alloc: A,
    word: &[u8],
) -> Result<Option<&'static str>, AllocError> {
    most_like(
        alloc,
        word,
        &["item", "flush", "flushwq", "flush?", "flushwq?", "ordered"],
    )
}

/// The one of the words `known` that a word of a text is most like, if it is like any of them; the first if there are
/// several.
pub(crate) fn most_like<A: Allocator + Copy>(
    alloc: A,
    word: &[u8],
    known: &[&'static str],
) -> Result<Option<&'static str>, AllocError> {
    let word = letters(alloc, word)?;
    most_like_shown(alloc, &word, known)
}

/// As `most_like`, for a word as it is shown.
fn most_like_shown<A: Allocator + Copy>(
    alloc: A,
    word: &str,
    known: &[&'static str],
) -> Result<Option<&'static str>, AllocError> {
    let mut like = None;
    let mut least = usize::MAX;
    for other in known {
        if let Some(edits) = edits_between(alloc, word, other.as_bytes())?
            && edits < least
        {
            least = edits;
            like = Some(*other);
        }
    }
    Ok(like)
}
