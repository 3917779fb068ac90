//! The run of a walk.
//!
//! All that waits is queued, and then what is waited for beside; then each item is started and begins its wait. It
//! takes time and memory in the number of steps.

ghost use Rattle.std.specs.Prelude.{◌≡◌, ◌<◌, ◌++◌, ◌∷◌, [], if◌then◌else◌, length, map, flat_map, IfOk, OnOk};
ghost use Rattle.std.specs.List.{All};
ghost use Rattle.wq_core.specs.declared.step.Step.TheVariants.{Queue};
ghost use Rattle.wq_core.specs.Wiring.{items};
ghost use Rattle.wq_hang.specs.declared.hop.Hop.{Hop};
ghost use Rattle.wq_hang.specs.Walk.{target_beside, moves_of, run_of_walk};
ghost use Rattle.wq_hang.specs.WalkFor.{named_beside, pending_beside, pending_for};
ghost use Rattle.wq_hang.specs.WaysFor.{IsPushedOnce};

use crate::hop::Hop;
use crate::waits::Waits;
use std::alloc::{AllocError, Allocator};
use wq_core::Step;
use wq_items::ItemId;

/// The targets that have to be queued themselves where hops lead round.
pub(crate) fn targets_beside<A: Allocator + Copy>(
    alloc: A,
    hops: &[Hop],
) -> Result<Vec<ItemId, A>, AllocError>
    ensures { IfOk result (λ beside. beside.items ≡ flat_map target_beside hops.now) }
{
    let mut beside = Vec::new(alloc);
    for hop in hops {
        if !hop.flush.whole && hop.flush.item != hop.next {
            beside.push(hop.flush.item)?;
        }
    }
    Ok(beside)
}

/// Adds an item, unless it was added before.
fn push_once<A: Allocator>(
    marks: &mut [bool],
    list: &mut Vec<ItemId, A>,
    item: ItemId,
) -> Result<(), AllocError>
    requires { item < length marks.old }
    ensures { OnOk result (IsPushedOnce item marks.old list.old.items marks.new list.new.items) }
{
    let at = usize::from(item.get());
    if !marks[at] {
        marks[at] = true;
        list.push(item)?;
    }
    Ok(())
}

/// Whether the target of a hop is queued and doesn't wait: it is on a bare lane, or neither is the whole lane flushed
/// nor is it the next one that waits.
fn is_pending<A: Allocator + Copy>(waits: &Waits<'_, A>, hop: &Hop) -> bool
    requires { hop.now.flush.item < items waits.now }
    ensures { pending_beside waits.now hop.now ≡ (if result then hop.now.flush.item ∷ [] else []) }
{
    let _items = waits.items();
    !waits.has_rescuer(waits.lane_of(hop.flush.item))
        || (!hop.flush.whole && hop.flush.item != hop.next)
}

/// Whether this item is the first that waits.
fn waits_first(hops: &[Hop], item: ItemId) -> bool
    ensures { named_beside item hops.now ≡ (if result then [] else item ∷ []) }
{
    match hops.first() {
        Some(first) => first.item == item,
        None => false,
    }
}

/// What is only pending in the run of a walk that holds up an item: that item, unless it is the first that waits, and
/// targets that don't wait, each once.
pub(crate) fn pending_for<A: Allocator + Copy>(
    alloc: A,
    waits: &Waits<'_, A>,
    named: ItemId,
    hops: &[Hop],
) -> Result<Vec<ItemId, A>, AllocError>
    requires named { named < items waits.now }
    requires targets { All (λ h. h.flush.item < items waits.now) hops.now }
    ensures { IfOk result (λ list. list.items ≡ pending_for waits.now named hops.now) }
{
    let mut marks = vec![in alloc; false; waits.items()]?;
    let mut list = Vec::new(alloc);
    if !waits_first(hops, named) {
        push_once(marks.as_mut_slice(), &mut list, named)?;
    }
    for hop in hops {
        if is_pending(waits, hop) {
            push_once(marks.as_mut_slice(), &mut list, hop.flush.item)?;
        }
    }
    Ok(list)
}

/// The queueings of the items that wait, and then of those beside them.
fn queueings<A: Allocator + Copy>(
    alloc: A,
    hops: &[Hop],
    beside: &[ItemId],
) -> Result<Vec<Step, A>, AllocError>
    ensures { IfOk result (λ steps. steps.items ≡ map Queue (map (λ (h : Hop). h.item) hops.now ++ beside.now)) }
{
    let mut steps = Vec::new(alloc);
    for hop in hops {
        steps.push(Step::Queue(hop.item))?;
    }
    for item in beside {
        steps.push(Step::Queue(*item))?;
    }
    Ok(steps)
}

/// The starts of the items that wait, each with the beginning of its wait.
fn moves<A: Allocator + Copy>(
    alloc: A,
    waits: &Waits<'_, A>,
    hops: &[Hop],
) -> Result<Vec<Step, A>, AllocError>
    requires { All (λ h. h.item < items waits.now) hops.now }
    ensures { IfOk result (λ steps. steps.items ≡ flat_map (moves_of waits.now) hops.now) }
{
    let mut steps = Vec::new(alloc);
    for hop in hops {
        let lane = waits.lane_of(hop.item);
        steps.push(Step::Start(lane, hop.item))?;
        steps.push(Step::wait_of(hop.flush.whole, lane, hop.flush.item))?;
    }
    Ok(steps)
}

/// The run of a walk.
pub(crate) fn run_of_walk<A: Allocator + Copy>(
    alloc: A,
    waits: &Waits<'_, A>,
    hops: &[Hop],
    beside: &[ItemId],
) -> Result<Vec<Step, A>, AllocError>
    requires { All (λ h. h.item < items waits.now) hops.now }
    ensures { IfOk result (λ steps. steps.items ≡ run_of_walk waits.now hops.now beside.now) }
{
    let mut steps = queueings(alloc, hops, beside)?;
    let moves = moves(alloc, waits, hops)?;
    steps.extend_from_slice(moves.as_slice())?;
    Ok(steps)
}
