//! The items on each lane, and those on marked lanes.
//!
//! It takes time and memory in the number of items and lanes.

ghost use Rattle.std.specs.Prelude.{◌≡◌, ◌<◌, ◌≤◌, length, map, slice_index_or, true, false, ℕ, IfOk, OnOk, IsTrue};
ghost use Rattle.std.specs.Prelude.{Contains};
ghost use Rattle.std.specs.List.{All, range_with_len};
ghost use Rattle.wq_core.specs.Wiring.{items, lane_of};
ghost use Rattle.wq_hang.specs.Search.{AreItemsOn, AreMarkedOf};

use crate::waits::Waits;
use std::alloc::{AllocError, Allocator};
use wq_buckets::Buckets;
use wq_items::ItemId;

/// The lane of each item in turn.
fn lanes_of_items<A: Allocator + Copy>(
    alloc: A,
    waits: &Waits<'_, A>,
) -> Result<Vec<u16, A>, AllocError>
    ensures { IfOk result (λ lanes. lanes.items ≡ map (lane_of waits.now) (range_with_len 0 (items waits.now))) }
{
    let mut lanes = Vec::with_capacity(alloc, waits.items())?;
    for i in 0..waits.items() as u16 {
        lanes.push(waits.lane_of(ItemId::new(i)).get())?;
    }
    Ok(lanes)
}

/// The items on each lane.
pub(crate) fn items_on_lanes<A: Allocator + Copy>(
    alloc: A,
    waits: &Waits<'_, A>,
) -> Result<Buckets<A>, AllocError>
    ensures { IfOk result (AreItemsOn waits.now) }
{
    let _items = waits.items();
    let lanes = lanes_of_items(alloc, waits)?;
    Buckets::new(alloc, &lanes, waits.lanes() as u16)
}

/// The items on marked lanes.
pub(crate) fn marked_items<A: Allocator + Copy>(
    alloc: A,
    waits: &Waits<'_, A>,
    marks: &[bool],
) -> Result<Vec<u32, A>, AllocError>
    requires { length marks.now ≡ waits.now.lanes }
    ensures items { IfOk result (λ list. All (λ i. i < items waits.now) list.items) }
    ensures marked { IfOk result (λ list. (i : ℕ) → Contains list.items i →
        slice_index_or marks.now (lane_of waits.now i) false ≡ true) }
    ensures all { IfOk result (λ list. (i : ℕ) → i < items waits.now →
        slice_index_or marks.now (lane_of waits.now i) false ≡ true → Contains list.items i) }
{
    let mut list = Vec::new(alloc);
    for i in 0..waits.items() as u32 {
        let at = usize::from(waits.lane_of(ItemId::new(i as u16)).get());
        if marks[at] {
            list.push(i)?;
        }
    }
    Ok(list)
}

/// Whether a lane is marked. A number that is no lane's isn't.
fn is_marked(marks: &[bool], lane: u32) -> bool
    ensures value { result ≡ slice_index_or marks.now lane false }
    ensures within { IsTrue result → lane < length marks.now }
{
    match marks.get(lane as usize) {
        Some(is_marked) => *is_marked,
        None => false,
    }
}

/// The items on those of these lanes that are marked.
pub(crate) fn marked_items_of<A: Allocator + Copy>(
    on: &Buckets<A>,
    marks: &[bool],
    lanes: &[u32],
    list: &mut Vec<u32, A>,
) -> Result<(), AllocError>
    requires one_each { length marks.now ≡ length on.now }
    requires few { length marks.now ≤ 4096 }
    ensures { OnOk result (AreMarkedOf on.now marks.now lanes.now list.new.items) }
{
    list.clear();
    for lane in lanes {
        if is_marked(marks, *lane) {
            list.extend_from_slice(on.places(*lane as u16))?;
        }
    }
    Ok(())
}
