//! The lanes from which rounds are searched for.
//!
//! Numbers of lanes can't rise all the way round, whatever they are. So each round comes to a lane from one whose
//! number isn't lower. Those lanes are marked. It takes time and memory in the number of items, lanes and flushes.

ghost use Rattle.std.specs.Prelude.{◌≡◌, ◌<◌, ◌≤◌, ℕ, length, slice_index, slice_index_or, false, true, IfOk, Contains};
ghost use Rattle.wq_items.specs.declared.target.Target.{Target};
ghost use Rattle.wq_core.specs.Wiring.{items, lane_of, declared_by};
ghost use Rattle.wq_hang.specs.Search.{AreMarked};

use crate::waits::Waits;
use std::alloc::{AllocError, Allocator};
use wq_items::ItemId;

/// Marks each lane to which a flush of an item leads, if its number isn't greater than that of the item's lane.
fn mark_from<A: Allocator + Copy>(
    waits: &Waits<'_, A>,
    numbers: &[u16],
    item: ItemId,
    marks: &mut [bool],
)
    requires item { item < items waits.now }
    requires numbers { length numbers.now ≡ waits.now.lanes }
    requires marks { length marks.old ≡ waits.now.lanes }
    ensures kept { (q : ℕ) → slice_index_or marks.old q false ≡ true → slice_index_or marks.new q false ≡ true }
    ensures marked { (t : Target) → Contains (declared_by waits.now item) t →
        slice_index numbers.now (lane_of waits.now t.item) ≤ slice_index numbers.now (lane_of waits.now item) →
        slice_index_or marks.new (lane_of waits.now t.item) false ≡ true }
    ensures len { length marks.new ≡ length marks.old }
{
    let _items = waits.items();
    let own = numbers[usize::from(waits.lane_of(item).get())];
    for flush in waits.flushes(item) {
        let lane = usize::from(waits.lane_of(flush.item).get());
        if numbers[lane] <= own {
            marks[lane] = true;
        }
    }
}

/// For each lane whether it is marked.
pub(crate) fn marked_lanes<A: Allocator + Copy>(
    alloc: A,
    waits: &Waits<'_, A>,
    numbers: &[u16],
) -> Result<Vec<bool, A>, AllocError>
    requires { length numbers.now ≡ waits.now.lanes }
    ensures len { IfOk result (λ marks. length marks.items ≡ waits.now.lanes) }
    ensures marked { IfOk result (λ marks. AreMarked waits.now numbers.now marks.items) }
{
    let mut marks = vec![in alloc; false; waits.lanes()]?;
    for i in 0..waits.items() as u16 {
        mark_from(waits, numbers, ItemId::new(i), marks.as_mut_slice());
    }
    Ok(marks)
}
