//! Comments: for each flush that a text declares, the comment of its line, in order of place.
//!
//! "The command `dot`" in docs/FORMAT.md says what is shown of them. It takes time linear in the length of the text,
//! and memory linear in the number of flushes: the bytes stay where they are.

ghost use Rattle.std.specs.Prelude.{◌≡◌, ◌-◌, ◌++◌, [], IfOk, None, OnOk, flat_map, length, map, replicate};
ghost use Rattle.std.specs.Prelude.{slice_index_or, take};
ghost use Rattle.wq_dot.specs.Tooltips.{comment_of, comments_of, flushes_on, line_comments, max_comment};
ghost use Rattle.wq_text.specs.Limits.{limit_fault};
ghost use Rattle.wq_commands.specs.Declaration.{max_declaration, max_declaration_line};

use std::alloc::{AllocError, Allocator};
use wq_commands::{MAX_DECLARATION, MAX_DECLARATION_LINE};
use wq_decl::{Keyword, cut_keyword};
use wq_names::comment_body;
use wq_text::{Line, Lines, Text, Words};

/// The most bytes of a comment that are shown.
const MAX_COMMENT: usize = 256;

/// The bytes of a comment that are shown.
fn shown(comment: &[u8]) -> &[u8]
    ensures { result.now ≡ take max_comment comment.now }
{
    if comment.len() > MAX_COMMENT {
        &comment[..MAX_COMMENT]
    } else {
        comment
    }
}

/// The comment of a line; empty if it has none.
fn comment<'a>(line: &Line<'a>) -> &'a [u8]
    ensures { result.now ≡ comment_of line.now.bytes }
{
    shown(comment_body(line))
}

/// How many names come after the first.
fn after_first(names: Words<'_>) -> usize
    ensures { result ≡ length names.entry - 1 }
{
    names.again().count().saturating_sub(1)
}

/// How many flushes a line declares.
fn flushes_on(line: &Line<'_>) -> usize
    ensures { result ≡ flushes_on line.now }
{
    match cut_keyword(line) {
        Some((Some(Keyword::Flush), names)) => after_first(names),
        Some((Some(Keyword::FlushWq), names)) => after_first(names),
        Some((Some(Keyword::FlushUnsure), names)) => after_first(names),
        Some((Some(Keyword::FlushWqUnsure), names)) => after_first(names),
        _ => 0,
    }
}

/// Appends a comment this many times.
fn put_comments<'a, A: Allocator + Copy>(
    comments: &mut Vec<&'a [u8], A>,
    comment: &'a [u8],
    times: usize,
) -> Result<(), AllocError>
    ensures { OnOk result (map (λ c. c.now) comments.new.items
        ≡ map (λ c. c.now) comments.old.items ++ replicate times comment.now) }
{
    for _ in 0..times {
        comments.push(comment)?;
    }
    Ok(())
}

/// The comments of the flushes on these lines.
fn line_comments<'a, A: Allocator + Copy>(
    alloc: A,
    lines: Lines<'a>,
) -> Result<Vec<&'a [u8], A>, AllocError>
    ensures { IfOk result (λ comments. map (λ c. c.now) comments.items ≡ flat_map line_comments lines.entry) }
{
    let mut comments = Vec::new(alloc);
    for line in lines {
        put_comments(&mut comments, comment(&line), flushes_on(&line))?;
    }
    Ok(comments)
}

/// The comments of the flushes that a text declares, if it is no longer than a declaration may be.
pub(crate) fn comments<A: Allocator + Copy>(
    alloc: A,
    text: &[u8],
) -> Result<Vec<&[u8], A>, AllocError>
    ensures { IfOk result (λ comments. limit_fault max_declaration max_declaration_line text.now ≡ None
        → map (λ c. c.now) comments.items ≡ comments_of text.now) }
{
    match Text::new(text, MAX_DECLARATION, MAX_DECLARATION_LINE) {
        Ok(text) => line_comments(alloc, text.lines()),
        // No declaration is this long.
        Err(_) => Ok(Vec::new(alloc)),
    }
}

/// The comment of the flush at a place; empty if there is none.
pub(crate) fn comment_at<'a>(comments: &[&'a [u8]], place: u32) -> &'a [u8]
    ensures { result.now ≡ slice_index_or (map (λ c. c.now) comments.now) place [] }
{
    match comments.get(place as usize) {
        Some(comment) => comment,
        None => &[],
    }
}
