//! A flush: an arrow from the item to the target.
//!
//! The line is that of "The command `dot`" in docs/FORMAT.md. Printing takes time and memory linear in the length of
//! the output, and O(log n) time if the item declares n flushes. If the target was declared before the item, it also
//! takes time linear in the number of flushes that the target declares.

ghost use Rattle.std.specs.Prelude.{◌≡◌, ◌<◌, ◌==◌, ◌++◌, cond, length, OnOk};
ghost use Rattle.std.specs.List.{list_any};
ghost use Rattle.wq_items.specs.declared.target.Target.{Target};
ghost use Rattle.wq_dot.specs.Drawing.{arrow_line, ended, ends_text, head_text, is_turned, is_whole_at, look_text};

use crate::look::FlushLook;
use crate::tooltip::put_tooltip;
use std::alloc::{AllocError, Allocator};
use wq_circles::is_unsure;
use wq_graph::WaitArc;
use wq_items::{ItemId, ItemTable, Target};
use wq_text::put;

/// Whether a flush is of a whole workqueue.
fn is_whole<A: Allocator + Copy>(table: &ItemTable<'_, A>, flush: WaitArc) -> bool
    requires { flush.src < length table.now.names }
    ensures { result ≡ is_whole_at table.now.waits flush }
{
    // What holds for every table.
    let _items = table.len();
    let targets = table.waits(flush.src);
    match targets.binary_search_by_key(&flush.place, |target| target.place) {
        Ok(at) => targets[at].whole,
        Err(_) => false,
    }
}

/// Whether any target is of this item.
fn have_target(targets: &[Target], item: ItemId) -> bool
    ensures { result ≡ list_any (λ (t : Target). t.item == item) targets.now }
{
    targets.iter().any(|target| target.item == item)
}

/// Whether a flush is drawn from its target.
///
/// Graphviz lays arrows between the same two items beside one another, but only if all lead the same way.
fn is_turned<A: Allocator + Copy>(table: &ItemTable<'_, A>, flush: &WaitArc) -> bool
    requires { flush.now.dst < length table.now.names }
    ensures { result ≡ is_turned table.now.waits flush.now }
{
    flush.dst.get() < flush.src.get() && have_target(table.waits(flush.dst), flush.src)
}

/// The item that the arrow of a flush is drawn from.
fn tail(flush: &WaitArc, turned: bool) -> ItemId
    ensures { result ≡ cond turned flush.now.dst flush.now.src }
{
    if turned { flush.dst } else { flush.src }
}

/// The item that the arrow of a flush is drawn to.
fn tip(flush: &WaitArc, turned: bool) -> ItemId
    ensures { result ≡ cond turned flush.now.src flush.now.dst }
{
    if turned { flush.src } else { flush.dst }
}

/// The line and the colour of an arrow. `unsure` says whether the flush is unsure.
fn look_text(look: FlushLook, unsure: bool) -> &'static [u8]
    ensures { result.now ≡ look_text look unsure }
{
    match (look, unsure) {
        (FlushLook::Plain, false) => b"",
        (FlushLook::Red, false) => b" [color=red, style=bold]",
        (FlushLook::BoldRed, false) => b" [color=red, penwidth=4]",
        (FlushLook::Bold, false) => b" [style=bold]",
        (FlushLook::Plain, true) => b" [style=dotted]",
        (FlushLook::Red, true) => b" [color=red, style=\"bold,dotted\"]",
        (FlushLook::BoldRed, true) => b" [color=red, penwidth=4, style=dotted]",
        (FlushLook::Bold, true) => b" [style=\"bold,dotted\"]",
    }
}

/// The head of an arrow. `whole` says whether the flush is of a whole workqueue.
fn head_text(turned: bool, whole: bool) -> &'static [u8]
    ensures { result.now ≡ head_text turned whole }
{
    match (turned, whole) {
        (false, false) => b"",
        (false, true) => b" [arrowhead=odiamond]",
        (true, false) => b" [dir=back]",
        (true, true) => b" [dir=back, arrowtail=odiamond]",
    }
}

/// Appends an arrow between two items.
fn put_ends<A: Allocator + Copy>(
    out: &mut Vec<u8, A>,
    table: &ItemTable<'_, A>,
    one: ItemId,
    other: ItemId,
) -> Result<(), AllocError>
    requires one { one < length table.now.names }
    requires other { other < length table.now.names }
    ensures { OnOk result (out.new.items ≡ out.old.items ++ ends_text table.now.names one other) }
{
    put(out, b"  \"")?;
    put(out, table.name(one))?;
    put(out, b"\" -> \"")?;
    put(out, table.name(other))?;
    put(out, b"\"")
}

/// Appends the line of a flush with this look and this comment.
pub(crate) fn put_flush<A: Allocator + Copy>(
    out: &mut Vec<u8, A>,
    table: &ItemTable<'_, A>,
    flush: WaitArc,
    look: FlushLook,
    comment: &[u8],
) -> Result<(), AllocError>
    requires item { flush.src < length table.now.names }
    requires target { flush.dst < length table.now.names }
    ensures { OnOk result (out.new.items
        ≡ out.old.items ++ ended (arrow_line table.now.names table.now.waits look comment.now flush)) }
{
    let turned = is_turned(table, &flush);
    put_ends(out, table, tail(&flush, turned), tip(&flush, turned))?;
    put(out, look_text(look, is_unsure(table, flush)))?;
    put(out, head_text(turned, is_whole(table, flush)))?;
    put_tooltip(out, comment)?;
    put(out, b";\n")
}
