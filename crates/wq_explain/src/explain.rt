//! The command `explain`: from a word to what it means, and the list of all that is explained.
//!
//! The rule is that of docs/FORMAT.md, "The command `explain`". The text is built in full before its first byte is
//! written, and nothing is read. It takes time and memory linear in the length of the text.

ghost use Rattle.std.specs.Prelude.{◌≡◌, ◌≢◌, ◌++◌, Err, IfOk, map, option_map};
ghost use Rattle.wq_explain.specs.Explaining.{end_in, explained_end, explained_text, explanation_in, explanation_text};
ghost use Rattle.wq_explain.specs.Explaining.{explanations, known_or_not, number_in, numbers_and_faults, row_of};
ghost use Rattle.wq_explain.specs.Explaining.{text_in, text_or_titles, titles, unknown_text, words_of_texts};
ghost use Rattle.wq_meter.specs.Meter.{count_after, WritesPrefix, WritesWhole};

use crate::table::{EXPLANATIONS, Explanation, with_name, with_number};
use crate::words::WORDS;
use std::alloc::{AllocError, Allocator};
use std::io::Write;
use wq_meter::{Fault, Metered, write_text};

/// Whether a word has an explanation, or no word was given.
#[derive(Clone, Copy, Debug, PartialEq, Eq)]
pub enum Explained {
    /// The word has an explanation, or all were listed.
    Known,
    /// The word has no explanation.
    Unknown,
}

/// The title of an explanation, an empty line, and what it means.
fn explanation_text<A: Allocator + Copy>(
    alloc: A,
    row: &Explanation,
) -> Result<Vec<u8, A>, AllocError>
    ensures { IfOk result (λ text. text.items ≡ explanation_text (row_of row.now)) }
{
    let mut text = Vec::new(alloc);
    text.extend_from_slice(row.2.as_bytes())?;
    text.push(b'\n')?;
    text.extend_from_slice(row.3.as_bytes())?;
    Ok(text)
}

/// Appends the titles.
fn push_titles<A: Allocator + Copy>(
    text: &mut Vec<u8, A>,
    rows: &[Explanation],
) -> Result<(), AllocError>
    ensures { IfOk result (λ _. text.new.items ≡ text.old.items ++ titles (map row_of rows.now)) }
{
    for row in rows {
        text.extend_from_slice(row.2.as_bytes())?;
    }
    Ok(())
}

/// The titles of all explanations.
fn titles<A: Allocator + Copy>(alloc: A, rows: &[Explanation]) -> Result<Vec<u8, A>, AllocError>
    ensures { IfOk result (λ text. text.items ≡ titles (map row_of rows.now)) }
{
    let mut text = Vec::new(alloc);
    push_titles(&mut text, rows)?;
    Ok(text)
}

/// The titles of all explanations, below a line that says that a word has none.
fn unknown_text<A: Allocator + Copy>(
    alloc: A,
    rows: &[Explanation],
) -> Result<Vec<u8, A>, AllocError>
    ensures { IfOk result (λ text. text.items ≡ unknown_text (map row_of rows.now)) }
{
    let mut text = Vec::new(alloc);
    text.extend_from_slice(b"This has no explanation. These have one:\n")?;
    push_titles(&mut text, rows)?;
    Ok(text)
}

/// The 32-bit number that a word spells.
fn number_in(word: &str) -> Option<u32>
    ensures { result ≡ number_in word.now }
{
    word.parse().ok()
}

/// The explanation that a word names, by its number or its name.
fn named<'a>(rows: &'a [Explanation], word: &str) -> Option<&'a Explanation>
    ensures { option_map (λ row. row_of row.now) result ≡ explanation_in (map row_of rows.now) word.now }
{
    match number_in(word) {
        Some(code) => with_number(rows, code),
        None => with_name(rows, word),
    }
}

/// What is printed for a word, and whether one of these explanations is for it.
fn explain_word<A: Allocator + Copy>(
    alloc: A,
    rows: &[Explanation],
    word: &str,
) -> Result<(Explained, Vec<u8, A>), AllocError>
    ensures known { IfOk result (λ printed. printed.0 ≡ known_or_not (explanation_in (map row_of rows.now) word.now)) }
    ensures text { IfOk result (λ printed. printed.1.items
        ≡ text_or_titles (map row_of rows.now) (explanation_in (map row_of rows.now) word.now)) }
{
    match named(rows, word) {
        Some(row) => Ok((Explained::Known, explanation_text(alloc, row)?)),
        None => Ok((Explained::Unknown, unknown_text(alloc, rows)?)),
    }
}

/// What is printed with or without a word, and whether one of these explanations is for it.
fn explain<A: Allocator + Copy>(
    alloc: A,
    rows: &[Explanation],
    word: Option<&str>,
) -> Result<(Explained, Vec<u8, A>), AllocError>
    ensures known { IfOk result (λ printed. printed.0
        ≡ end_in (map row_of rows.now) (option_map (λ s. s.now) word.entry)) }
    ensures text { IfOk result (λ printed. printed.1.items
        ≡ text_in (map row_of rows.now) (option_map (λ s. s.now) word.entry)) }
{
    match word {
        Some(word) => explain_word(alloc, rows, word),
        None => Ok((Explained::Known, titles(alloc, rows)?)),
    }
}

/// Writes the explanation that a word names, by its number or its name, ignoring case. Without a word, or for one
/// without an explanation, it writes the list of all explanations, in the second case below a line that says so.
///
/// The errors are `Fault::Memory`, if memory ran out, and `Fault::Write`, if a write failed or took no byte. After
/// `Fault::Write` a prefix of the text is written, after `Fault::Memory` nothing.
pub fn explain_cmd<W: Write, A: Allocator + Copy>(
    alloc: A,
    word: Option<&str>,
    writer: &mut Metered<W>,
) -> Result<Explained, Fault>
    // The text of this word is written, and nothing else.
    ensures answered { IfOk result (λ end. end ≡ explained_end (option_map (λ s. s.now) word.entry)) }
    ensures written { IfOk result (λ end.
        WritesWhole W.contents writer.old writer.new (explained_text (option_map (λ s. s.now) word.entry))) }

    // What a fault leaves.
    ensures prefix { result ≡ Err Fault.Write
        → WritesPrefix W.contents writer.old writer.new (explained_text (option_map (λ s. s.now) word.entry)) }
    ensures untouched { result ≡ Err Fault.Memory → writer.new ≡ writer.old }
    ensures never_reads { result ≢ Err Fault.Read }

    // Which fault it is.
    ensures write_failed { result ≡ Err Fault.Write → writer.new.failures ≡ count_after writer.old.failures 1 }
    ensures no_write_failed { result ≢ Err Fault.Write → writer.new.failures ≡ writer.old.failures }
{
    let (end, text) = explain_known(alloc, word)?;
    write_text(writer, &text)?;
    Ok(end)
}

/// The explanations of the numbers and of the faults.
fn numbers_and_faults() -> &'static [Explanation]
    ensures { map row_of result.now ≡ numbers_and_faults }
{
    &EXPLANATIONS
}

/// The explanations of the words of texts.
fn words_of_texts() -> &'static [Explanation]
    ensures { map row_of result.now ≡ words_of_texts }
{
    &WORDS
}

/// All explanations.
fn all_rows<A: Allocator + Copy>(alloc: A) -> Result<Vec<Explanation, A>, AllocError>
    ensures { IfOk result (λ rows. map row_of rows.items ≡ explanations) }
{
    let mut rows = Vec::new(alloc);
    rows.extend_from_slice(numbers_and_faults())?;
    rows.extend_from_slice(words_of_texts())?;
    Ok(rows)
}

/// What is printed with or without a word, and whether there is an explanation for it.
fn explain_known<A: Allocator + Copy>(
    alloc: A,
    word: Option<&str>,
) -> Result<(Explained, Vec<u8, A>), AllocError>
    ensures known { IfOk result (λ printed. printed.0 ≡ explained_end (option_map (λ s. s.now) word.entry)) }
    ensures text { IfOk result (λ printed. printed.1.items ≡ explained_text (option_map (λ s. s.now) word.entry)) }
{
    let rows = all_rows(alloc)?;
    explain(alloc, &rows, word)
}
