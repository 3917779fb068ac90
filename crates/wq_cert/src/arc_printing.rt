//! Printing arcs, in plan texts and in circle texts.
//!
//! The format is that of "Plan texts" and "Circle texts" in docs/FORMAT.md. Printing takes time and memory linear in
//! the length of the output.

ghost use Rattle.std.specs.Prelude.{◌≡◌, ◌<◌, ◌++◌, ℕ, length, OnErr, OnOk};
ghost use Rattle.wq_text.specs.LineText.{IsBegun, line_text};
ghost use Rattle.wq_cert.specs.PlanText.{arc_line};

use std::alloc::{AllocError, Allocator};
use wq_items::{ItemId, ItemTable};
use wq_text::{put, put_end, put_word};

/// Appends `arc NAME TARGET`.
///
/// The only error is out of memory (20).
pub fn put_arc_line<A: Allocator + Copy>(
    out: &mut Vec<u8, A>,
    table: &ItemTable<'_, A>,
    arc: (ItemId, ItemId),
) -> Result<(), AllocError>
    requires source { arc.0 < length table.now.names }
    requires target { arc.1 < length table.now.names }
    ensures added { OnOk result (out.new.items ≡ out.old.items ++ line_text (arc_line table.now.names arc)) }
    ensures part { OnErr result (IsBegun (line_text (arc_line table.now.names arc)) out.old.items out.new.items) }
{
    put(out, b"arc")?;
    put_word(out, table.name(arc.0))?;
    put_word(out, table.name(arc.1))?;
    put_end(out)
}
