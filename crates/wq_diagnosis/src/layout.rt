//! Lines as they are shown in a diagnosis, and what is shown of a text.
//!
//! Each byte is shown as "Diagnoses" in docs/FORMAT.md says. A call takes time and memory linear in the length of what
//! is shown.

ghost use Rattle.std.specs.Prelude.{◌≡◌, ◌++◌, ◌∷◌, [], true, map, IfOk, OnOk};
ghost use Rattle.wq_findings.specs.Shown.{place_text, shown};
ghost use Rattle.wq_diagnosis.specs.Diagnosis.{shown_lines};

use std::alloc::{AllocError, Allocator};
use wq_findings::{Excerpt, Hint, Mark, Marks, put_place, shown};
use wq_text::Text;

/// Whether each byte of a line is shown as it is.
fn is_shown_as_it_is(line: &[u8]) -> bool
    ensures { result ≡ true → map shown line.now ≡ line.now }
{
    for byte in line {
        if shown(*byte) != *byte {
            return false;
        }
    }
    true
}

/// Appends a line as it is shown. Most lines are shown as they are.
pub fn put_line<A: Allocator>(out: &mut Vec<u8, A>, line: &[u8]) -> Result<(), AllocError>
    ensures { OnOk result (out.new.items ≡ out.old.items ++ (map shown line.now ++ (10 ∷ []))) }
{
    if is_shown_as_it_is(line) {
        out.extend_from_slice(line)?;
    } else {
        for byte in line {
            out.push(shown(*byte))?;
        }
    }
    out.push(b'\n')?;
    Ok(())
}

/// Appends lines as they are shown.
pub fn put_lines<A: Allocator>(out: &mut Vec<u8, A>, lines: &[Vec<u8, A>]) -> Result<(), AllocError>
    ensures { OnOk result (out.new.items ≡ out.old.items ++ shown_lines (map (λ line. line.items) lines.now)) }
{
    for line in lines {
        put_line(out, line)?;
    }
    Ok(())
}

/// A place in a file.
pub fn place_words<A: Allocator + Copy>(alloc: A, place: &[u32]) -> Result<Vec<u8, A>, AllocError>
    ensures { IfOk result (λ words. words.items ≡ place_text place.now) }
{
    let mut words = Vec::new(alloc);
    put_place(alloc, &mut words, place)?;
    Ok(words)
}

/// Appends a line and its marks.
pub fn push_excerpt<A: Allocator + Copy>(
    alloc: A,
    details: &mut Vec<Vec<u8, A>, A>,
    bytes: &[u8],
    mark: Mark,
    hint: Hint<'_>,
) -> Result<(), AllocError> {
    let marks = Marks::of(bytes.len(), mark, hint);
    details.push(Excerpt::of(bytes, mark).to_string(alloc)?.into_bytes())?;
    details.push(marks.to_string(alloc)?.into_bytes())?;
    Ok(())
}

/// The column of a mark, from 1.
pub fn column(mark: Mark) -> u32 {
    u32::try_from(mark.at).unwrap_or(u32::MAX).saturating_add(1)
}

/// The lines of a text, however long they are. A text of 2^32 bytes or more, which no command reads, has none.
pub fn lines_of(text: &[u8]) -> Text<'_> {
    match Text::new(text, u32::MAX, u32::MAX) {
        Ok(text) => text,
        Err(_) => no_text(),
    }
}

/// A text without lines.
fn no_text<'a>() -> Text<'a> {
    Text::new(b"", 0, 0).unwrap()
}
