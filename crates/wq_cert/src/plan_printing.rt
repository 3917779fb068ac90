//! Plan texts: the workqueues with their items, and a longest waiting chain.
//!
//! The format is that of "Plan texts" in docs/FORMAT.md. Printing takes time and memory linear in the number of items
//! and the length of the text.

ghost use Rattle.std.specs.Prelude.{◌≡◌, ◌<◌, ◌+◌, ◌++◌, ◌^◌, ℕ, length, OnOk, IfOk};
ghost use Rattle.std.specs.List.{All};
ghost use Rattle.wq_text.specs.LineText.{line_text};
ghost use Rattle.wq_groups.specs.Assignment.{item_lanes};
ghost use Rattle.wq_cert.specs.PlanText.{plan_line, workqueue_line, chain_line, plan_text};

use crate::arc_printing::put_arc_line;
use std::alloc::{AllocError, Allocator};
use wq_buckets::Buckets;
use wq_groups::{Assignment, Groups};
use wq_items::{ItemId, ItemTable};
use wq_text::{put, put_end, put_number, put_word};

/// Appends `plan K`.
pub(crate) fn put_plan_line<A: Allocator + Copy>(
    out: &mut Vec<u8, A>,
    lanes: u16,
) -> Result<(), AllocError>
    ensures { OnOk result (out.new.items ≡ out.old.items ++ line_text (plan_line lanes)) }
{
    put(out, b"plan")?;
    put_number(out, u32::from(lanes))?;
    put_end(out)
}

/// Appends `wq Q NAME..`, with the names of these items.
pub(crate) fn put_wq_line<A: Allocator + Copy>(
    out: &mut Vec<u8, A>,
    table: &ItemTable<'_, A>,
    q: u16,
    items: &[u32],
) -> Result<(), AllocError>
    requires { All (λ i. i < length table.now.names) items.now }
    ensures { OnOk result (out.new.items ≡ out.old.items ++ line_text (workqueue_line table.now.names (q, items.now))) }
{
    // What holds for every table.
    let _items = table.len();
    put(out, b"wq")?;
    put_number(out, u32::from(q))?;
    for item in items {
        put_word(out, table.name(ItemId::new(*item as u16)))?;
    }
    put_end(out)
}

/// Appends `chain N`.
pub(crate) fn put_chain_line<A: Allocator + Copy>(
    out: &mut Vec<u8, A>,
    lanes: u16,
    chain: &[(ItemId, ItemId)],
) -> Result<(), AllocError>
    requires { length chain.now + 1 < 2 ^ 32 }
    ensures { OnOk result (out.new.items ≡ out.old.items ++ line_text (chain_line lanes chain.now)) }
{
    let groups = if lanes == 0 {
        0
    } else {
        chain.len() as u32 + 1
    };
    put(out, b"chain")?;
    put_number(out, groups)?;
    put_end(out)
}

/// The text of a plan: the number of workqueues, the items of each, and the arcs of a waiting chain.
///
/// The groups must be those of the table's items, and each must have a workqueue. The chain must have fewer than
/// 4,294,967,295 arcs, between items of the table. The only error is out of memory (20).
pub fn plan_text<A: Allocator + Copy>(
    alloc: A,
    table: &ItemTable<'_, A>,
    groups: &Groups<A>,
    assignment: &Assignment<A>,
    chain: &[(ItemId, ItemId)],
) -> Result<Vec<u8, A>, AllocError>
    requires grouped { length groups.now.group_of ≡ length table.now.names }
    requires assigned { length assignment.now.lane_of_group ≡ groups.now.groups }
    requires few { length chain.now + 1 < 2 ^ 32 }
    requires items { All (λ (arc : ℕ × ℕ). (arc.0 < length table.now.names)
        × (arc.1 < length table.now.names)) chain.now }
    ensures { IfOk result (λ text. text.items
        ≡ plan_text table.now.names assignment.now.lanes (item_lanes assignment.now groups.now.group_of) chain.now) }
{
    let lanes = assignment.lanes();
    let lane = assignment.item_lanes(alloc, groups)?;
    print_plan(alloc, table, lanes, &lane, chain)
}

/// The text of a plan that gives each item its workqueue.
fn print_plan<A: Allocator + Copy>(
    alloc: A,
    table: &ItemTable<'_, A>,
    lanes: u16,
    lane: &[u16],
    chain: &[(ItemId, ItemId)],
) -> Result<Vec<u8, A>, AllocError>
    requires one_each { length lane.now ≡ length table.now.names }
    requires within { All (λ q. q < lanes) lane.now }
    requires few { length chain.now + 1 < 2 ^ 32 }
    requires items { All (λ (arc : ℕ × ℕ). (arc.0 < length table.now.names)
        × (arc.1 < length table.now.names)) chain.now }
    ensures { IfOk result (λ text. text.items ≡ plan_text table.now.names lanes lane.now chain.now) }
{
    // What holds for every table.
    let _items = table.len();
    let items = Buckets::new(alloc, lane, lanes)?;
    let mut out = Vec::new(alloc);
    put_plan_line(&mut out, lanes)?;
    for q in 0..lanes {
        put_wq_line(&mut out, table, q, items.places(q))?;
    }
    put_chain_line(&mut out, lanes, chain)?;
    for arc in chain {
        put_arc_line(&mut out, table, *arc)?;
    }
    Ok(out)
}
