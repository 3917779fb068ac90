//! A workqueue: a box with its groups.
//!
//! The lines are those of "The command `dot`" in docs/FORMAT.md. Printing takes time and memory linear in the length of
//! the output.

ghost use Rattle.std.specs.Prelude.{◌≡◌, ◌<◌, ◌++◌, flat_map, OnOk};
ghost use Rattle.std.specs.List.{All};
ghost use Rattle.wq_dot.specs.Drawing.{box_lines, ended, frame_line, frame_text};

use crate::group::put_group;
use crate::label::{put_label, put_numbered};
use std::alloc::{AllocError, Allocator};
use wq_groups::{Declaration, GroupId};
use wq_text::{put, put_number};

/// The frame of a workqueue: dashed if it has no rescuer.
fn frame_text(bare: bool) -> &'static [u8]
    ensures { result.now ≡ frame_text bare }
{
    if bare {
        b"style=\"filled,dashed\", fillcolor=gray92, color=black"
    } else {
        b"style=filled, color=gray92"
    }
}

/// Appends the line with the frame and the label of a workqueue.
fn put_frame<A: Allocator + Copy>(
    out: &mut Vec<u8, A>,
    name: &[u8],
    shared: bool,
    bare: bool,
    number: u16,
) -> Result<(), AllocError>
    ensures { OnOk result (out.new.items ≡ out.old.items ++ ended (frame_line name.now shared bare number)) }
{
    put(out, b"    graph [label=\"\", ")?;
    put(out, frame_text(bare))?;
    put(out, b"]; \"")?;
    put_numbered(out, number)?;
    put(out, b"\" [")?;
    put_label(out, name, shared, bare, number)?;
    put(out, b"shape=plaintext, style=\"\", fontsize=14];\n")
}

/// Appends the lines of a workqueue with this name and these groups. `shared` says whether others have the same name,
/// and `bare` whether the workqueue has no rescuer.
pub(crate) fn put_workqueue<A: Allocator + Copy>(
    out: &mut Vec<u8, A>,
    declared: &Declaration<'_, A>,
    name: &[u8],
    shared: bool,
    bare: bool,
    number: u16,
    own: &[u32],
) -> Result<(), AllocError>
    requires { All (λ g. g < declared.now.partition.groups) own.now }
    ensures { OnOk result (out.new.items ≡ out.old.items
        ++ flat_map ended (box_lines declared.now.table.names declared.now.partition.group_of name.now shared bare
        number own.now)) }
{
    let Declaration { table, groups } = declared;
    put(out, b"  subgraph \"cluster wq")?;
    put_number(out, u32::from(number))?;
    put(out, b"\" {\n")?;
    put_frame(out, name, shared, bare, number)?;
    for group in own {
        put_group(out, table, groups.members(GroupId::new(*group as u16)))?;
    }
    put(out, b"  }\n")
}
