//! The tooltip of an arrow: the comment of the line that declares the flush.
//!
//! The escapes are those of "The command `dot`" in docs/FORMAT.md. Printing takes time and memory linear in the length
//! of the comment.

ghost use Rattle.std.specs.Prelude.{◌≡◌, ◌++◌, OnOk, flat_map};
ghost use Rattle.wq_dot.specs.Tooltips.{escaped, tooltip_of, tooltip_text};

use std::alloc::{AllocError, Allocator};
use wq_text::put;

/// Appends a byte, escaped if Graphviz would read it otherwise.
fn put_escaped<A: Allocator + Copy>(out: &mut Vec<u8, A>, byte: u8) -> Result<(), AllocError>
    ensures { OnOk result (out.new.items ≡ out.old.items ++ escaped byte) }
{
    match byte {
        b'"' => put(out, b"\\\""),
        b'\\' => put(out, b"\\\\"),
        b'&' => put(out, b"&amp;"),
        b'\t' => put(out, b" "),
        b' '..=b'~' => put(out, &[byte]),
        _ => put(out, b"?"),
    }
}

/// Appends bytes, each escaped if Graphviz would read it otherwise.
pub(crate) fn put_all_escaped<A: Allocator + Copy>(
    out: &mut Vec<u8, A>,
    bytes: &[u8],
) -> Result<(), AllocError>
    ensures { OnOk result (out.new.items ≡ out.old.items ++ flat_map escaped bytes.now) }
{
    for byte in bytes {
        put_escaped(out, *byte)?;
    }
    Ok(())
}

/// Appends a tooltip with this comment.
fn put_comment<A: Allocator + Copy>(out: &mut Vec<u8, A>, comment: &[u8]) -> Result<(), AllocError>
    ensures { OnOk result (out.new.items ≡ out.old.items ++ tooltip_of comment.now) }
{
    put(out, b" [edgetooltip=\"")?;
    put_all_escaped(out, comment)?;
    put(out, b"\"]")
}

/// Appends the tooltip with this comment, unless it is empty.
pub(crate) fn put_tooltip<A: Allocator + Copy>(
    out: &mut Vec<u8, A>,
    comment: &[u8],
) -> Result<(), AllocError>
    ensures { OnOk result (out.new.items ≡ out.old.items ++ tooltip_text comment.now) }
{
    if comment.is_empty() {
        return Ok(());
    }
    put_comment(out, comment)
}
