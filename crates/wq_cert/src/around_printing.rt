//! Texts of answers around fixed workqueues: a plan of new ones, or a flush to no rescuer.
//!
//! The format is that of "Planning around workqueues" in docs/FORMAT.md. Printing takes time and memory linear in the
//! number of items and workqueues and the length of the text.

ghost use Rattle.std.specs.Prelude.{◌≡◌, ◌<◌, ◌≤◌, ◌+◌, ◌++◌, ◌^◌, ℕ, length, OnOk, IfOk};
ghost use Rattle.std.specs.List.{All};
ghost use Rattle.wq_core.specs.declared.step.Step.{Step};
ghost use Rattle.wq_core.specs.Runs.{HasNoHelp};
ghost use Rattle.wq_text.specs.LineText.{line_text};
ghost use Rattle.wq_groups.specs.Assignment.{item_lanes};
ghost use Rattle.wq_cert.specs.AroundText.{order_line, around_text, norescuer_text};
ghost use Rattle.wq_cert.specs.RunText.{step_item};

use crate::arc_printing::put_arc_line;
use crate::plan_printing::{put_chain_line, put_plan_line, put_wq_line};
use crate::run_printing::put_run;
use std::alloc::{AllocError, Allocator};
use wq_buckets::Buckets;
use wq_core::Step;
use wq_groups::{Assignment, Groups, LaneId};
use wq_items::{ItemId, ItemTable};
use wq_text::{put, put_end, put_number};

/// Adds `order Q..`.
fn put_order_line<A: Allocator + Copy>(
    out: &mut Vec<u8, A>,
    order: &[LaneId],
) -> Result<(), AllocError>
    ensures { OnOk result (out.new.items ≡ out.old.items ++ line_text (order_line order.now)) }
{
    put(out, b"order")?;
    for lane in order {
        put_number(out, u32::from(lane.get()))?;
    }
    put_end(out)
}

/// The text of a plan that gives each item its workqueue, of which those before this number are fixed.
fn print_around<A: Allocator + Copy>(
    alloc: A,
    table: &ItemTable<'_, A>,
    fixed: u16,
    lanes: u16,
    lane: &[u16],
    order: &[LaneId],
    chain: &[(ItemId, ItemId)],
) -> Result<Vec<u8, A>, AllocError>
    requires one_each { length lane.now ≡ length table.now.names }
    requires within { All (λ q. q < lanes) lane.now }
    requires fixed { fixed ≤ lanes }
    requires few { length chain.now + 1 < 2 ^ 32 }
    requires items { All (λ (arc : ℕ × ℕ). (arc.0 < length table.now.names)
        × (arc.1 < length table.now.names)) chain.now }
    ensures { IfOk result (λ text. text.items
        ≡ around_text table.now.names fixed lanes lane.now order.now chain.now) }
{
    // What holds of every table.
    let _items = table.len();
    let items = Buckets::new(alloc, lane, lanes)?;
    let mut out = Vec::new(alloc);
    put_plan_line(&mut out, lanes - fixed)?;
    for q in fixed..lanes {
        put_wq_line(&mut out, table, q, items.places(q))?;
    }
    put_order_line(&mut out, order)?;
    put_chain_line(&mut out, lanes - fixed, chain)?;
    for arc in chain {
        put_arc_line(&mut out, table, *arc)?;
    }
    Ok(out)
}

/// The text of a plan around this many fixed workqueues: the number of new ones, the items of each, an order of
/// workqueues, and the arcs of a waiting chain.
///
/// The groups are those of the table's items, and each has a workqueue. The chain has fewer than 4,294,967,295 arcs,
/// each from an item of the table to one of it. The only error is out of memory (20).
pub fn around_text<A: Allocator + Copy>(
    alloc: A,
    table: &ItemTable<'_, A>,
    groups: &Groups<A>,
    fixed: u16,
    assignment: &Assignment<A>,
    order: &[LaneId],
    chain: &[(ItemId, ItemId)],
) -> Result<Vec<u8, A>, AllocError>
    requires grouped { length groups.now.group_of ≡ length table.now.names }
    requires assigned { length assignment.now.lane_of_group ≡ groups.now.groups }
    requires fixed { fixed ≤ assignment.now.lanes }
    requires few { length chain.now + 1 < 2 ^ 32 }
    requires items { All (λ (arc : ℕ × ℕ). (arc.0 < length table.now.names)
        × (arc.1 < length table.now.names)) chain.now }
    ensures { IfOk result (λ text. text.items ≡ around_text table.now.names fixed assignment.now.lanes
        (item_lanes assignment.now groups.now.group_of) order.now chain.now) }
{
    let lanes = assignment.lanes();
    let lane = assignment.item_lanes(alloc, groups)?;
    print_around(alloc, table, fixed, lanes, &lane, order, chain)
}

/// The text of a flush to no rescuer: its item and target, and a run.
///
/// There are fewer than 4,294,967,296 steps, each of an item of the table and none of a helper. The only error is out
/// of memory (20).
pub fn norescuer_text<A: Allocator + Copy>(
    alloc: A,
    table: &ItemTable<'_, A>,
    arc: (ItemId, ItemId),
    steps: &[Step],
) -> Result<Vec<u8, A>, AllocError>
    requires item { arc.0 < length table.now.names }
    requires target { arc.1 < length table.now.names }
    requires few { length steps.now < 2 ^ 32 }
    requires items { All (λ (step : Step). step_item step < length table.now.names) steps.now }
    requires no_help { HasNoHelp steps.now }
    ensures { IfOk result (λ text. text.items ≡ norescuer_text table.now.names arc steps.now) }
{
    let mut out = Vec::new(alloc);
    put(&mut out, b"norescuer")?;
    put_number(&mut out, 1)?;
    put_end(&mut out)?;
    put_arc_line(&mut out, table, arc)?;
    put_run(&mut out, table, steps)?;
    Ok(out)
}
