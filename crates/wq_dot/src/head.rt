//! The head of a drawing.
//!
//! The lines are those of "The command `dot`" in docs/FORMAT.md. Printing takes time and memory linear in the length of
//! the title.

ghost use Rattle.std.specs.Prelude.{◌≡◌, ◌++◌, flat_map, OnOk};
ghost use Rattle.wq_dot.specs.Drawing.{ended, head_lines};

use std::alloc::{AllocError, Allocator};
use wq_text::put;

/// Appends the head, with this title.
pub(crate) fn put_head<A: Allocator + Copy>(
    out: &mut Vec<u8, A>,
    title: &[u8],
) -> Result<(), AllocError>
    ensures { OnOk result (out.new.items ≡ out.old.items ++ flat_map ended (head_lines title.now)) }
{
    put(out, b"digraph wqplan {\n")?;
    put(out, b"  graph [label=\"")?;
    put(out, title)?;
    put(
        out,
        b"\", labelloc=t, labeljust=l, rankdir=LR, nodesep=0.15, ranksep=1, fontname=\"sans-serif\"];\n",
    )?;
    put(
        out,
        b"  node [shape=box, style=filled, fillcolor=white, height=0.3, fontname=\"sans-serif\", fontsize=12];\n",
    )?;
    put(out, b"  edge [arrowsize=0.7];\n")
}
