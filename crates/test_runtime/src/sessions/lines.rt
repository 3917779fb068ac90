//! A text that says line by line what is to be done. Reading one takes time linear in its length, besides that of what
//! is done.

use crate::testbed::{MAX_CERTIFICATE, MAX_CERTIFICATE_LINE};
use std::alloc::{AllocError, Global};
use wq_items::ItemTable;
use wq_text::{Text, Words};

/// A listener is told what the lines of a text say.
pub(crate) trait Listener {
    /// Takes in what a line says by its first word and the words after it, and may add to what is printed. Returns
    /// false if the line is a mistake.
    fn hear(
        &mut self,
        table: &ItemTable<'_, Global>,
        word: &[u8],
        words: Words<'_>,
        out: &mut String,
    ) -> Result<bool, AllocError>;
}

/// Tells what the lines say that have words. Returns the number of the first line that is a mistake, if there is one.
fn tell_lines<L: Listener>(
    to: &mut L,
    table: &ItemTable<'_, Global>,
    text: &Text<'_>,
    out: &mut String,
) -> Result<Option<u32>, AllocError> {
    for line in text.lines() {
        let mut words = line.words();
        let Some(word) = words.next() else {
            continue;
        };
        if !to.hear(table, word.bytes(), words, out)? {
            return Ok(Some(line.no()));
        }
    }
    Ok(None)
}

/// Tells what a text says. Returns the number of the first line that is a mistake, if there is one; if a line or the
/// text is too long, nothing is told.
pub(crate) fn tell_text<L: Listener>(
    to: &mut L,
    table: &ItemTable<'_, Global>,
    text: &[u8],
    out: &mut String,
) -> Result<Option<u32>, AllocError> {
    match Text::new(text, MAX_CERTIFICATE, MAX_CERTIFICATE_LINE) {
        Ok(text) => tell_lines(to, table, &text, out),
        Err(error) => Ok(Some(error.line())),
    }
}
