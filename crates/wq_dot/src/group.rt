//! A group: its item, or a box with its items.
//!
//! The lines are those of "The command `dot`" in docs/FORMAT.md. Printing takes time and memory linear in the length of
//! the output.

ghost use Rattle.std.specs.Prelude.{◌≡◌, ◌<◌, ◌++◌, flat_map, length, OnOk};
ghost use Rattle.std.specs.List.{All};
ghost use Rattle.wq_dot.specs.Drawing.{ended, group_lines, member_line, group_box_lines, single_line};

use std::alloc::{AllocError, Allocator};
use wq_items::{ItemId, ItemTable};
use wq_text::put;

/// Appends the line of a group of one item.
fn put_single<A: Allocator + Copy>(
    out: &mut Vec<u8, A>,
    table: &ItemTable<'_, A>,
    item: ItemId,
) -> Result<(), AllocError>
    requires { item < length table.now.names }
    ensures { OnOk result (out.new.items ≡ out.old.items ++ ended (single_line table.now.names item)) }
{
    put(out, b"    \"")?;
    put(out, table.name(item))?;
    put(out, b"\";\n")
}

/// Appends the line of one item of a group of several.
fn put_member<A: Allocator + Copy>(
    out: &mut Vec<u8, A>,
    table: &ItemTable<'_, A>,
    item: ItemId,
) -> Result<(), AllocError>
    requires { item < length table.now.names }
    ensures { OnOk result (out.new.items ≡ out.old.items ++ ended (member_line table.now.names item)) }
{
    put(out, b"      \"")?;
    put(out, table.name(item))?;
    put(out, b"\";\n")
}

/// Appends the box of a group of several items, of which `first` is the first.
fn put_ordered<A: Allocator + Copy>(
    out: &mut Vec<u8, A>,
    table: &ItemTable<'_, A>,
    first: ItemId,
    members: &[ItemId],
) -> Result<(), AllocError>
    requires first { first < length table.now.names }
    requires members { All (λ i. i < length table.now.names) members.now }
    ensures { OnOk result (out.new.items
        ≡ out.old.items ++ flat_map ended (group_box_lines table.now.names first members.now)) }
{
    put(out, b"    subgraph \"cluster ordered ")?;
    put(out, table.name(first))?;
    put(out, b"\" {\n")?;
    put(
        out,
        b"      graph [label=\"\", style=dashed, color=black]; \"ordered ",
    )?;
    put(out, table.name(first))?;
    put(
        out,
        b"\" [label=\"ordered\", shape=plaintext, style=\"\"];\n",
    )?;
    for item in members {
        put_member(out, table, *item)?;
    }
    put(out, b"    }\n")
}

/// Appends the lines of a group with these items.
pub(crate) fn put_group<A: Allocator + Copy>(
    out: &mut Vec<u8, A>,
    table: &ItemTable<'_, A>,
    members: &[ItemId],
) -> Result<(), AllocError>
    requires { All (λ i. i < length table.now.names) members.now }
    ensures { OnOk result (out.new.items ≡ out.old.items ++ flat_map ended (group_lines table.now.names members.now)) }
{
    match members {
        [] => Ok(()),
        [item] => put_single(out, table, *item),
        [first, ..] => put_ordered(out, table, *first, members),
    }
}
