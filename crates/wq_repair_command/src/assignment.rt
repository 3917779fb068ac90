//! The text of workqueues: a line for each, with its items, and with the name that it has.
//!
//! The format is that of "The command `repair`" in docs/FORMAT.md. Printing takes time and memory linear in the number
//! of items and the length of the text.

ghost use Rattle.std.specs.Prelude.{◌≡◌, ◌<◌, ◌++◌, length, map, flat_map, IfOk, OnOk};
ghost use Rattle.std.specs.List.{All};
ghost use Rattle.wq_text.specs.LineText.{spaced};
ghost use Rattle.wq_cert.specs.PlanText.{name_of};
ghost use Rattle.wq_repair_command.specs.AssignmentText.{keyword, name_comment, named_line, assignment_text};

use std::alloc::{AllocError, Allocator};
use wq_buckets::Buckets;
use wq_core::Assigned;
use wq_groups::LaneId;
use wq_items::{ItemId, ItemTable};
use wq_names::name_at;
use wq_text::{put, put_end, put_number, put_word};

/// The first word of the line of a workqueue.
fn keyword(is_bare: bool) -> &'static [u8]
    ensures { result.now ≡ keyword is_bare }
{
    if is_bare { b"norescuer" } else { b"wq" }
}

/// Adds the name of a workqueue as a comment. Nothing is added if it has none.
fn put_name<A: Allocator + Copy>(out: &mut Vec<u8, A>, name: &[u8]) -> Result<(), AllocError>
    ensures { OnOk result (out.new.items ≡ out.old.items ++ name_comment name.now) }
{
    if name.is_empty() {
        return Ok(());
    }
    put(out, b"  #")?;
    put_word(out, name)
}

/// Adds the names of these items.
fn put_items<A: Allocator + Copy>(
    out: &mut Vec<u8, A>,
    table: &ItemTable<'_, A>,
    items: &[u32],
) -> Result<(), AllocError>
    requires { All (λ i. i < length table.now.names) items.now }
    ensures { OnOk result (out.new.items ≡ out.old.items ++ flat_map spaced (map (name_of table.now.names) items.now)) }
{
    // What holds of every table.
    let _items = table.len();
    for item in items {
        put_word(out, table.name(ItemId::new(*item as u16)))?;
    }
    Ok(())
}

/// Adds the line of a workqueue, with the names of these items.
fn put_line<A: Allocator + Copy>(
    out: &mut Vec<u8, A>,
    table: &ItemTable<'_, A>,
    q: u16,
    is_bare: bool,
    items: &[u32],
    name: &[u8],
) -> Result<(), AllocError>
    requires { All (λ i. i < length table.now.names) items.now }
    ensures { OnOk result (out.new.items
        ≡ out.old.items ++ named_line table.now.names q is_bare items.now name.now) }
{
    put(out, keyword(is_bare))?;
    put_number(out, u32::from(q))?;
    put_items(out, table, items)?;
    put_name(out, name)?;
    put_end(out)
}

/// The text of workqueues of declared groups: a line for each, with its items in the order of their declaration, and
/// with its name, if it has one.
///
/// The only error is out of memory (20).
pub fn assignment_text<A: Allocator + Copy>(
    alloc: A,
    assigned: &Assigned<'_, '_, A>,
    names: &[&[u8]],
) -> Result<Vec<u8, A>, AllocError>
    ensures { IfOk result (λ text. text.items
        ≡ assignment_text assigned.now.declared.table.names assigned.now.declared.partition
        assigned.now.workqueues (map (λ n. n.now) names.now)) }
{
    let table = assigned.table();
    let workqueues = assigned.workqueues();
    let assignment = workqueues.assignment();
    let lanes = assignment.lanes();
    let lane = assignment.item_lanes(alloc, assigned.groups())?;
    let items = Buckets::new(alloc, &lane, lanes)?;
    let mut out = Vec::new(alloc);
    for q in 0..lanes {
        let is_bare = workqueues.is_bare(LaneId::new(q));
        put_line(
            &mut out,
            table,
            q,
            is_bare,
            items.places(q),
            name_at(names, q),
        )?;
    }
    Ok(out)
}
