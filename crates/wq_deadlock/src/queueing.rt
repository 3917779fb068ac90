//! The queueings with which the run of a circle begins.
//!
//! The items that flush along the arcs of the circle come first, in the order of the circle, and then all others, in
//! declaration order. So each lane of the circle starts with an item that waits for the next lane, and no lane of the
//! circle finishes anything. This takes the time and the memory of going through the items once.

ghost use Rattle.std.specs.Prelude.{◌≡◌, ◌+◌, ◌<◌, ◌==◌, ℕ, false, length, slice_index_or, IfOk};
ghost use Rattle.std.specs.List.{list_any};
ghost use Rattle.wq_core.specs.Held.{AreDone};
ghost use Rattle.wq_core.specs.Played.{queue_order};
ghost use Rattle.wq_core.specs.Runs.{IsRunFrom};
ghost use Rattle.wq_deadlock.specs.CircleRun.{flushing_items};

use std::alloc::{AllocError, Allocator};
use wq_core::{Core, Step};
use wq_graph::WaitArc;
use wq_items::ItemId;

/// The items that flush along these arcs, in their order.
pub(crate) fn flushing_items<A: Allocator + Copy>(
    alloc: A,
    arcs: &[WaitArc],
) -> Result<Vec<ItemId, A>, AllocError>
    ensures { IfOk result (λ items. items.items ≡ flushing_items arcs.now) }
{
    arcs.iter().map(|arc| arc.src).collect(alloc)
}

/// For each of so many items, whether it is one of these.
fn marks_of<A: Allocator + Copy>(
    alloc: A,
    items: u16,
    these: &[ItemId],
) -> Result<Vec<bool, A>, AllocError>
    ensures len { IfOk result (λ marks. length marks.items ≡ items) }
    ensures marked { IfOk result (λ marks. (i : ℕ) → i < items →
        slice_index_or marks.items i false ≡ list_any (λ j. i == j) these.now) }
{
    let mut marks = vec![in alloc; false; usize::from(items)]?;
    for item in these {
        if item.get() < items {
            marks[usize::from(item.get())] = true;
        }
    }
    Ok(marks)
}

/// The queueings of all items of a machine: those of `first`, and then the others.
pub(crate) fn queueings<A: Allocator + Copy>(
    alloc: A,
    core: &Core<A>,
    first: &[ItemId],
) -> Result<Vec<Step, A>, AllocError>
    ensures { IfOk result (λ steps. steps.items ≡ queue_order core.now.wiring first.now) }
{
    let items = core.items() as u16;
    let is_first = marks_of(alloc, items, first)?;
    let mut steps = Vec::with_capacity(alloc, usize::from(items))?;
    for item in first {
        steps.push(Step::Queue(*item))?;
    }
    for number in 0..items {
        if !is_first[usize::from(number)] {
            steps.push(Step::Queue(ItemId::new(number)))?;
        }
    }
    Ok(steps)
}

/// Makes the machine take these steps, all of which must be possible.
pub(crate) fn make_all<A: Allocator>(core: &mut Core<A>, steps: &[Step])
    requires run { IsRunFrom core.old.wiring core.old.state steps.now }
    requires numbers { core.old.state.next + length steps.now < 4294967295 }
    ensures { AreDone core.old steps.now core.new }
{
    core.run(steps).unwrap();
}
