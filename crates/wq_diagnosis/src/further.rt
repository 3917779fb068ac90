//! The further mistakes of a declaration that is refused: what it would be refused for if the lines before were mended.
//!
//! The text is mended and read again, at most 30 times, and takes the time and the memory of that many readings.

use crate::diagnosis::{Refusal, Source, head, push_details};
use crate::layout::{column, lines_of};
use std::alloc::{AllocError, Allocator};
use wq_commands::{Stop, read_declaration};
use wq_findings::{Mended, Mending, in_mended, line_at};

/// The most further mistakes that are told.
const MOST: u32 = 9;

/// How often a text is read again at most.
const MOST_READINGS: u32 = 30;

/// Appends the lines about the refusal of a mended text, in which the refused line is unchanged.
fn tell<A: Allocator + Copy>(
    alloc: A,
    lines: &mut Vec<Vec<u8, A>, A>,
    file: &str,
    mended: &Mended<A>,
    refusal: Refusal,
) -> Result<(), AllocError> {
    let Refusal { word, code, line } = refusal;
    let text = lines_of(&mended.text);
    let own = lines_of(&mended.own);
    let finding = in_mended(alloc, &text, &own, code, line)?;
    let what = finding.what.to_string(alloc)?;
    let head = match finding.mark {
        Some(mark) => head(alloc, file, &[line, column(mark)], &what, word, code)?,
        None => head(alloc, file, &[line], &what, word, code)?,
    };
    lines.push(head)?;
    push_details(alloc, lines, line_at(&text, line), finding)
}

/// What a text is refused for; `None` if it is a declaration.
fn refusal_of<A: Allocator + Copy>(
    alloc: A,
    seed: u64,
    text: &[u8],
) -> Result<Option<Refusal>, AllocError> {
    match read_declaration(alloc, seed, text) {
        Ok(_) => Ok(None),
        Err(Stop::Refused { code, line }) => Ok(Some(Refusal::new(code, line))),
        Err(Stop::OutOfMemory) => Err(AllocError),
    }
}

/// Appends the lines about further mistakes of a declaration with this refusal: at most nine, and at most one for each
/// line.
///
/// Names are hashed with `seed`; nothing that is said depends on it.
pub(crate) fn push_further<A: Allocator + Copy>(
    alloc: A,
    seed: u64,
    lines: &mut Vec<Vec<u8, A>, A>,
    declaration: Source<'_>,
    refusal: Refusal,
) -> Result<(), AllocError> {
    let mut mending = Mending::new(alloc);
    let mut mended = Mended {
        text: Vec::from_slice(alloc, declaration.text)?,
        own: Vec::from_slice(alloc, declaration.text)?,
    };
    let mut refusal = refusal;
    let mut told = 0;
    for _ in 0..MOST_READINGS {
        let Some(next) = next_of(alloc, &mut mending, &mended, refusal)? else {
            return Ok(());
        };
        mended = next;
        let Some(next) = refusal_of(alloc, seed, &mended.text)? else {
            return Ok(());
        };
        refusal = next;
        if mending.has(refusal.line) {
            continue;
        }
        if told == MOST || !mending.can_tell(refusal.code) {
            return Ok(());
        }
        tell(alloc, lines, declaration.file, &mended, refusal)?;
        told = told.saturating_add(1);
    }
    Ok(())
}

/// The text with the line mended that this refusal is about.
fn next_of<A: Allocator + Copy>(
    alloc: A,
    mending: &mut Mending<A>,
    mended: &Mended<A>,
    refusal: Refusal,
) -> Result<Option<Mended<A>>, AllocError> {
    let text = lines_of(&mended.text);
    let own = lines_of(&mended.own);
    mending.mended(alloc, &text, &own, refusal.code, refusal.line)
}
