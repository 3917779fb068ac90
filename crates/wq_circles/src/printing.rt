//! Components texts: how many components there are, and the arcs of each.
//!
//! The format is that of "The command `circles`" in docs/FORMAT.md. Printing takes time and memory linear in the length
//! of the text, and O(log n) time for each arc of an item with n flushes.

ghost use Rattle.std.specs.Prelude.{◌≡◌, ◌<◌, ◌++◌, ◌^◌, length, map, flat_map, IfOk, OnOk};
ghost use Rattle.std.specs.List.{All};
ghost use Rattle.wq_text.specs.LineText.{line_text};
ghost use Rattle.wq_circles.specs.ComponentsText.{count_line, arcs_lines, bare_lines, components_text, circles_text};
ghost use Rattle.wq_circles.specs.ComponentsText.{AreBetween, arc_words};
ghost use Rattle.wq_circles.specs.HeldText.{way_lines};

use crate::unsure::is_unsure;
use std::alloc::{AllocError, Allocator};
use wq_cert::put_arc_line;
use wq_graph::WaitArc;
use wq_items::ItemTable;
use wq_text::{put, put_end, put_number, put_word};

/// Appends a line of a word and a count, as `components N`.
fn put_count_line<A: Allocator + Copy>(
    out: &mut Vec<u8, A>,
    word: &[u8],
    count: usize,
) -> Result<(), AllocError>
    requires { count < 2 ^ 32 }
    ensures { OnOk result (out.new.items ≡ out.old.items ++ line_text (count_line word.now count)) }
{
    put(out, word)?;
    put_number(out, count as u32)?;
    put_end(out)
}

/// Appends the line of an arc: `arc`, or `arc?` if its flush is unsure, and its ends.
fn put_arc<A: Allocator + Copy>(
    out: &mut Vec<u8, A>,
    table: &ItemTable<'_, A>,
    arc: &WaitArc,
) -> Result<(), AllocError>
    requires src { arc.now.src < length table.now.names }
    requires dst { arc.now.dst < length table.now.names }
    ensures { OnOk result (out.new.items
        ≡ out.old.items ++ line_text (arc_words table.now.names table.now.waits arc.now)) }
{
    if !is_unsure(table, *arc) {
        return put_arc_line(out, table, (arc.src, arc.dst));
    }
    put(out, b"arc?")?;
    put_word(out, table.name(arc.src))?;
    put_word(out, table.name(arc.dst))?;
    put_end(out)
}

/// Appends this word with the number of arcs, and the arcs.
fn put_arcs<A: Allocator + Copy>(
    out: &mut Vec<u8, A>,
    table: &ItemTable<'_, A>,
    word: &[u8],
    arcs: &[WaitArc],
) -> Result<(), AllocError>
    requires { AreBetween (length table.now.names) arcs.now }
    ensures { OnOk result (out.new.items
        ≡ out.old.items ++ flat_map line_text (arcs_lines table.now.names table.now.waits word.now arcs.now)) }
{
    put_count_line(out, word, arcs.len())?;
    for arc in arcs {
        put_arc(out, table, arc)?;
    }
    Ok(())
}

/// The text of components: how many there are, and the arcs of each, each arc as an item and its target.
///
/// There must be fewer than 2^32 components, each with fewer than 2^32 arcs, between items of the table. The only error
/// is out of memory (20).
fn components_text<A: Allocator + Copy>(
    alloc: A,
    table: &ItemTable<'_, A>,
    components: &[Vec<WaitArc, A>],
) -> Result<Vec<u8, A>, AllocError>
    requires few { length components.now < 2 ^ 32 }
    requires between { All (AreBetween (length table.now.names)) (map (λ l. l.items) components.now) }
    ensures { IfOk result (λ text. text.items
        ≡ components_text table.now.names table.now.waits (map (λ l. l.items) components.now)) }
{
    let mut out = Vec::new(alloc);
    put_count_line(&mut out, b"components", components.len())?;
    for arcs in components {
        put_arcs(&mut out, table, b"component", arcs)?;
    }
    Ok(out)
}

/// Appends flushes that lead to workqueues without a rescuer: `norescuer M` and the arcs, if there are any.
fn put_bare<A: Allocator + Copy>(
    out: &mut Vec<u8, A>,
    table: &ItemTable<'_, A>,
    arcs: &[WaitArc],
) -> Result<(), AllocError>
    requires { AreBetween (length table.now.names) arcs.now }
    ensures { OnOk result (out.new.items
        ≡ out.old.items ++ flat_map line_text (bare_lines table.now.names table.now.waits arcs.now)) }
{
    if arcs.is_empty() {
        return Ok(());
    }
    put_arcs(out, table, b"norescuer", arcs)
}

/// The text of components, and of flushes that lead to workqueues without a rescuer.
///
/// The only error is out of memory (20).
pub(crate) fn circles_text<A: Allocator + Copy>(
    alloc: A,
    table: &ItemTable<'_, A>,
    components: &[Vec<WaitArc, A>],
    waits: &[WaitArc],
) -> Result<Vec<u8, A>, AllocError>
    requires few { length components.now < 2 ^ 32 }
    requires between { All (AreBetween (length table.now.names)) (map (λ l. l.items) components.now) }
    requires waits { AreBetween (length table.now.names) waits.now }
    ensures { IfOk result (λ text. text.items
        ≡ circles_text table.now.names table.now.waits (map (λ l. l.items) components.now) waits.now) }
{
    let mut out = components_text(alloc, table, components)?;
    put_bare(&mut out, table, waits)?;
    Ok(out)
}

/// Adds ways: `ways M` and the arcs, where there are any.
pub(crate) fn put_ways<A: Allocator + Copy>(
    out: &mut Vec<u8, A>,
    table: &ItemTable<'_, A>,
    arcs: &[WaitArc],
) -> Result<(), AllocError>
    requires { AreBetween (length table.now.names) arcs.now }
    ensures { OnOk result (out.new.items
        ≡ out.old.items ++ flat_map line_text (way_lines table.now.names table.now.waits arcs.now)) }
{
    if arcs.is_empty() {
        return Ok(());
    }
    put_arcs(out, table, b"ways", arcs)
}
