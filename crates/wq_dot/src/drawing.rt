//! The text of a drawing: its head, its workqueues, its flushes and its end.
//!
//! The format is that of "The command `dot`" in docs/FORMAT.md. Drawing takes time and memory linear in the number of
//! items, groups, workqueues and flushes and in the length of the text, and sorts the names of the workqueues.

ghost use Rattle.std.specs.Prelude.{◌≡◌, ◌++◌, flat_map, length, map, IfOk, OnOk};
ghost use Rattle.std.specs.List.{range_with_len};
ghost use Rattle.wq_items.specs.Table.{flush_count};
ghost use Rattle.wq_graph.specs.Graph.{arcs_by_place};
ghost use Rattle.wq_dot.specs.Drawing.{drawing_text, ended, flush_line, workqueue_box_lines};

use crate::arrow::put_flush;
use crate::comments::comment_at;
use crate::head::put_head;
use crate::look::FlushLook;
use crate::shared::shared_names;
use crate::workqueue::put_workqueue;
use std::alloc::{AllocError, Allocator};
use wq_buckets::Buckets;
use wq_core::Assigned;
use wq_graph::group_arcs_by_place;
use wq_groups::{Declaration, LaneId};
use wq_names::name_at;
use wq_text::put;

/// Appends the workqueues with their groups. `called` has the names of the workqueues.
fn put_workqueues<A: Allocator + Copy>(
    alloc: A,
    out: &mut Vec<u8, A>,
    assigned: &Assigned<'_, '_, A>,
    called: &[&[u8]],
) -> Result<(), AllocError>
    ensures { OnOk result (out.new.items ≡ out.old.items ++ flat_map ended (flat_map
        (workqueue_box_lines assigned.now.declared.table.names assigned.now.declared.partition.group_of
        assigned.now.workqueues (map (λ n. n.now) called.now))
        (range_with_len 0 assigned.now.workqueues.assignment.lanes))) }
{
    let declared = assigned.declared;
    let assignment = assigned.workqueues.assignment();
    let workqueues = assignment.lanes();
    let lanes = assignment.lanes_of_groups(alloc)?;
    let by_workqueue = Buckets::new(alloc, &lanes, workqueues)?;
    let shared = shared_names(alloc, called)?;
    for number in 0..workqueues {
        let own = by_workqueue.places(number);
        let name = name_at(called, number);
        let bare = assigned.workqueues.is_bare(LaneId::new(number));
        put_workqueue(
            out,
            declared,
            name,
            shared.contains(&name),
            bare,
            number,
            own,
        )?;
    }
    Ok(())
}

/// Appends the declared flushes, with these looks and these comments, in order of place.
fn put_flushes<A: Allocator + Copy>(
    alloc: A,
    out: &mut Vec<u8, A>,
    declared: &Declaration<'_, A>,
    looks: &[FlushLook],
    comments: &[&[u8]],
) -> Result<(), AllocError>
    requires { length looks.now ≡ flush_count declared.now.table.waits }
    ensures { OnOk result (out.new.items ≡ out.old.items ++ flat_map ended (map
        (flush_line declared.now.table.names declared.now.table.waits looks.now (map (λ c. c.now) comments.now))
        (arcs_by_place declared.now.table.waits declared.now.partition.group_of))) }
{
    let Declaration { table, groups } = declared;
    let flushes = group_arcs_by_place(alloc, table, groups)?;
    for flush in &flushes {
        put_flush(
            out,
            table,
            *flush,
            looks[flush.place as usize],
            comment_at(comments, flush.place),
        )?;
    }
    Ok(())
}

/// The drawing of declared items on workqueues, with this title. `called` has the names of the workqueues, empty for a
/// workqueue without a name. `looks` says how each flush looks, in order of place, and `comments` what its tooltip
/// says: nothing if there is no comment at its place.
///
/// The only error is out of memory (20).
pub fn drawing_text<A: Allocator + Copy>(
    alloc: A,
    assigned: &Assigned<'_, '_, A>,
    called: &[&[u8]],
    title: &[u8],
    looks: &[FlushLook],
    comments: &[&[u8]],
) -> Result<Vec<u8, A>, AllocError>
    requires looks { length looks.now ≡ flush_count assigned.now.declared.table.waits }
    ensures { IfOk result (λ text. text.items
        ≡ drawing_text assigned.now.declared.table assigned.now.declared.partition assigned.now.workqueues
        (map (λ n. n.now) called.now) title.now looks.now (map (λ c. c.now) comments.now)) }
{
    let mut out = Vec::new(alloc);
    put_head(&mut out, title)?;
    put_workqueues(alloc, &mut out, assigned, called)?;
    put_flushes(alloc, &mut out, assigned.declared, looks, comments)?;
    put(&mut out, b"}\n")?;
    Ok(out)
}
