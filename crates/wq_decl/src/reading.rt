//! One line as a directive.
//!
//! Each byte of the line is looked at a fixed number of times: when words are cut, when names are judged, and when
//! there is a fault.

ghost use Rattle.std.specs.Prelude.{◌≡◌, ◌&&◌};
ghost use Rattle.std.specs.List.{list_all};
ghost use Rattle.wq_text.specs.Words.{words_of};
ghost use Rattle.wq_decl.specs.Names.{is_name_byte, is_name, are_names};
ghost use Rattle.wq_decl.specs.Reading.{is_text_byte, item_reading, flush_reading, flushwq_reading, ordered_reading};
ghost use Rattle.wq_decl.specs.Reading.{unsure_reading, reading_after, words_reading, reading};

use crate::directive::Directive;
use crate::fault::DeclError;
use crate::keyword::{Keyword, cut_keyword};
use wq_text::{Line, Words};

/// The most bytes that a name may have.
pub const MAX_NAME: usize = 63;

/// Each byte that may be in a name, at its own index, and a comma at every other index.
static NAME_BYTES: [u8; 256] = *b"\
    ,,,,,,,,,,,,,,,,,,,,,,,,,,,,,,,,\
    ,,,,,,,,,,,,,-.,0123456789,,,,,,\
    ,ABCDEFGHIJKLMNOPQRSTUVWXYZ,,,,_\
    ,abcdefghijklmnopqrstuvwxyz,,,,,\
    ,,,,,,,,,,,,,,,,,,,,,,,,,,,,,,,,\
    ,,,,,,,,,,,,,,,,,,,,,,,,,,,,,,,,\
    ,,,,,,,,,,,,,,,,,,,,,,,,,,,,,,,,\
    ,,,,,,,,,,,,,,,,,,,,,,,,,,,,,,,,";

/// Whether a name may have this byte: an ASCII letter, a digit, `_`, `-` or `.`. One look at the table tells.
fn is_name_byte(byte: u8) -> bool
    ensures { result ≡ is_name_byte byte }
{
    NAME_BYTES[byte as usize] != b','
}

/// Whether each of four bytes may be in a name.
fn are_four_name_bytes(a: u8, b: u8, c: u8, d: u8) -> bool
    ensures { result ≡ (is_name_byte a && (is_name_byte b && (is_name_byte c && is_name_byte d))) }
{
    is_name_byte(a) && is_name_byte(b) && is_name_byte(c) && is_name_byte(d)
}

/// Whether each byte may be in a name. Four bytes are looked at in a step.
fn are_name_bytes(word: &[u8]) -> bool
    ensures { result ≡ list_all is_name_byte word.now }
{
    let mut rest = word;
    while let [a, b, c, d, others @ ..] = rest {
        if !are_four_name_bytes(*a, *b, *c, *d) {
            return false;
        }
        rest = others;
    }
    for byte in rest {
        if !is_name_byte(*byte) {
            return false;
        }
    }
    true
}

/// Whether a word is a name: 1 to 63 bytes that may be in a name.
pub fn is_name(word: &[u8]) -> bool
    ensures { result ≡ is_name word.now }
{
    !word.is_empty() && word.len() <= MAX_NAME && are_name_bytes(word)
}

/// Whether each word is a name.
fn are_names(words: Words<'_>) -> bool
    ensures { result ≡ are_names words.entry }
{
    for word in words {
        if !is_name(word.bytes()) {
            return false;
        }
    }
    true
}

/// Whether a line may have this byte before its comment: TAB, or a printable ASCII character.
fn is_text_byte(byte: u8) -> bool
    ensures { result ≡ is_text_byte byte }
{
    byte == b'\t' || (32 <= byte && byte <= 126)
}

/// Whether a line may have each of these bytes before its comment.
fn are_text_bytes(content: &[u8]) -> bool
    ensures { result ≡ list_all is_text_byte content.now }
{
    content.iter().all(|byte| is_text_byte(*byte))
}

/// The words after `item` on this line, as a directive.
fn read_item<'a>(line: u32, mut words: Words<'a>) -> Result<Option<Directive<'a>>, DeclError>
    ensures { result ≡ item_reading line words.entry }
{
    let Some(name) = words.next() else {
        return Err(DeclError::MissingName { line });
    };
    if words.next().is_some() {
        return Err(DeclError::ExtraWord { line });
    }
    if !is_name(name.bytes()) {
        return Err(DeclError::BadName { line });
    }
    Ok(Some(Directive::Item(name)))
}

/// The words after `flush` on this line, as a directive.
fn read_flush<'a>(line: u32, mut words: Words<'a>) -> Result<Option<Directive<'a>>, DeclError>
    ensures { result ≡ flush_reading line words.entry }
{
    let Some(name) = words.next() else {
        return Err(DeclError::MissingName { line });
    };
    let targets = words.again();
    let Some(target) = words.next() else {
        return Err(DeclError::MissingName { line });
    };
    if is_name(name.bytes()) && is_name(target.bytes()) && are_names(words) {
        Ok(Some(Directive::Flush(name, targets)))
    } else {
        Err(DeclError::BadName { line })
    }
}

/// The words after `flushwq` on this line, as a directive.
fn read_flushwq<'a>(line: u32, mut words: Words<'a>) -> Result<Option<Directive<'a>>, DeclError>
    ensures { result ≡ flushwq_reading line words.entry }
{
    let Some(name) = words.next() else {
        return Err(DeclError::MissingName { line });
    };
    let Some(target) = words.next() else {
        return Err(DeclError::MissingName { line });
    };
    if words.next().is_some() {
        return Err(DeclError::ExtraWord { line });
    }
    if !is_name(name.bytes()) || !is_name(target.bytes()) {
        return Err(DeclError::BadName { line });
    }
    Ok(Some(Directive::FlushWq(name, target)))
}

/// The words after `flush?` or, if `whole`, `flushwq?` on this line, as a directive.
fn read_unsure<'a>(
    line: u32,
    whole: bool,
    mut words: Words<'a>,
) -> Result<Option<Directive<'a>>, DeclError>
    ensures { result ≡ unsure_reading line whole words.entry }
{
    let Some(name) = words.next() else {
        return Err(DeclError::MissingName { line });
    };
    let Some(target) = words.next() else {
        return Err(DeclError::MissingName { line });
    };
    if words.next().is_some() {
        return Err(DeclError::ExtraWord { line });
    }
    if !is_name(name.bytes()) || !is_name(target.bytes()) {
        return Err(DeclError::BadName { line });
    }
    Ok(Some(Directive::Unsure(name, target, whole)))
}

/// The words after `ordered` on this line, as a directive.
fn read_ordered<'a>(line: u32, mut words: Words<'a>) -> Result<Option<Directive<'a>>, DeclError>
    ensures { result ≡ ordered_reading line words.entry }
{
    let names = words.again();
    let Some(name) = words.next() else {
        return Err(DeclError::MissingName { line });
    };
    if is_name(name.bytes()) && are_names(words) {
        Ok(Some(Directive::Ordered(names)))
    } else {
        Err(DeclError::BadName { line })
    }
}

/// The words after the keyword on this line, as a directive.
fn read_after<'a>(
    line: u32,
    keyword: Option<Keyword>,
    words: Words<'a>,
) -> Result<Option<Directive<'a>>, DeclError>
    ensures { result ≡ reading_after keyword line words.entry }
{
    match keyword {
        Some(Keyword::Item) => read_item(line, words),
        Some(Keyword::Flush) => read_flush(line, words),
        Some(Keyword::FlushWq) => read_flushwq(line, words),
        Some(Keyword::FlushUnsure) => read_unsure(line, false, words),
        Some(Keyword::FlushWqUnsure) => read_unsure(line, true, words),
        Some(Keyword::Ordered) => read_ordered(line, words),
        None => Err(DeclError::UnknownWord { line }),
    }
}

/// What the words of a line say: a directive, or `None` if there are no words; the error is their first fault.
fn read_words<'a>(line: &Line<'a>) -> Result<Option<Directive<'a>>, DeclError>
    ensures { result ≡ words_reading line.now.no (words_of line.now) }
{
    match cut_keyword(line) {
        Some((keyword, words)) => read_after(line.no(), keyword, words),
        None => Ok(None),
    }
}

/// What a line says: a directive, or `None` if no word comes before its comment; the error is its first fault.
///
/// Words without a fault hold no bad byte. So the bytes of a line are judged only if there is a fault.
pub(crate) fn read_line<'a>(line: &Line<'a>) -> Result<Option<Directive<'a>>, DeclError>
    ensures { result ≡ reading line.now }
{
    let found = read_words(line);
    if found.is_err() && !are_text_bytes(line.content()) {
        return Err(DeclError::BadByte { line: line.no() });
    }
    found
}
