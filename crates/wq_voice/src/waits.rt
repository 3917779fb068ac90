//! The words of waits that hold one another up: which item waits, for what, and why that makes no progress.
//!
//! The words are those of "Where workqueues can hang" in tests/DIAGNOSES.md. A call
//! takes the time and the memory of the words.

ghost use Rattle.std.specs.Prelude.{◌≡◌, ◌<◌, IfOk, length, map};
ghost use Rattle.wq_voice.specs.Waits.{bare_words, home_words, to_all_words, to_bare_words, to_behind_words};
ghost use Rattle.wq_voice.specs.Waits.{to_next_words, wait_words, words_of};

use crate::groups::group_wait_words;
use std::alloc::{AllocError, Allocator};
use wq_core::Assigned;
use wq_deadlock::is_on_bare;
use wq_diagnosis::{item_words, workqueue_of, workqueue_words};
use wq_hang::Hop;
use wq_items::ItemId;
use wq_names::messages;

/// Which workqueues the words are about.
#[derive(Clone, Copy, Debug, PartialEq, Eq)]
pub enum Wording {
    /// The workqueues of an assignment, by number and name.
    OnWorkqueues,
    /// Any workqueues: each group has one.
    OfGroups,
}

/// The workqueue of an item.
pub(crate) fn home_words<A: Allocator + Copy>(
    alloc: A,
    assigned: &Assigned<'_, '_, A>,
    names: &[&[u8]],
    item: ItemId,
) -> Result<Vec<u8, A>, AllocError>
    requires item { item < length assigned.now.declared.partition.group_of }
    ensures { IfOk result (λ words. words.items ≡ home_words assigned.now.declared
        assigned.now.workqueues (map (λ n. n.now) names.now) item) }
{
    workqueue_words(alloc, names, workqueue_of(assigned, item))
}

/// That the workqueue of an item has no rescuer.
pub(crate) fn bare_words<A: Allocator + Copy>(
    alloc: A,
    assigned: &Assigned<'_, '_, A>,
    names: &[&[u8]],
    item: ItemId,
) -> Result<Vec<u8, A>, AllocError>
    requires item { item < length assigned.now.declared.partition.group_of }
    ensures { IfOk result (λ words. words.items ≡ bare_words assigned.now.declared
        assigned.now.workqueues (map (λ n. n.now) names.now) item) }
{
    let workqueue = home_words(alloc, assigned, names, item)?;
    messages::has_no_rescuer(alloc, &workqueue)
}

/// That an item waits for one on a workqueue without a rescuer, or for this whole workqueue.
fn to_bare_words<A: Allocator + Copy>(
    alloc: A,
    assigned: &Assigned<'_, '_, A>,
    names: &[&[u8]],
    hop: &Hop,
) -> Result<Vec<u8, A>, AllocError>
    requires item { hop.now.item < length assigned.now.declared.partition.group_of }
    requires target { hop.now.flush.item < length assigned.now.declared.partition.group_of }
    ensures { IfOk result (λ words. words.items ≡ to_bare_words assigned.now.declared
        assigned.now.workqueues (map (λ n. n.now) names.now) hop.now) }
{
    let item = item_words(alloc, assigned.declared, hop.item)?;
    let workqueue = home_words(alloc, assigned, names, hop.item)?;
    let target = item_words(alloc, assigned.declared, hop.flush.item)?;
    let other = home_words(alloc, assigned, names, hop.flush.item)?;
    if hop.flush.whole {
        messages::waits_for_all_of_bare(alloc, &item, &workqueue, &target, &other)
    } else {
        messages::waits_for_bare(alloc, &item, &workqueue, &target, &other)
    }
}

/// That an item waits for a whole workqueue, on which an item waits.
fn to_all_words<A: Allocator + Copy>(
    alloc: A,
    assigned: &Assigned<'_, '_, A>,
    names: &[&[u8]],
    hop: &Hop,
) -> Result<Vec<u8, A>, AllocError>
    requires item { hop.now.item < length assigned.now.declared.partition.group_of }
    requires target { hop.now.flush.item < length assigned.now.declared.partition.group_of }
    ensures { IfOk result (λ words. words.items ≡ to_all_words assigned.now.declared
        assigned.now.workqueues (map (λ n. n.now) names.now) hop.now) }
{
    let item = item_words(alloc, assigned.declared, hop.item)?;
    let workqueue = home_words(alloc, assigned, names, hop.item)?;
    if hop.next == hop.item {
        return messages::waits_for_all_of_its_own(alloc, &item, &workqueue);
    }
    let other = home_words(alloc, assigned, names, hop.flush.item)?;
    let next = item_words(alloc, assigned.declared, hop.next)?;
    messages::waits_for_all(alloc, &item, &workqueue, &other, &next)
}

/// That an item waits for an item that waits, too.
fn to_next_words<A: Allocator + Copy>(
    alloc: A,
    assigned: &Assigned<'_, '_, A>,
    names: &[&[u8]],
    hop: &Hop,
) -> Result<Vec<u8, A>, AllocError>
    requires item { hop.now.item < length assigned.now.declared.partition.group_of }
    requires target { hop.now.flush.item < length assigned.now.declared.partition.group_of }
    ensures { IfOk result (λ words. words.items ≡ to_next_words assigned.now.declared
        assigned.now.workqueues (map (λ n. n.now) names.now) hop.now) }
{
    let item = item_words(alloc, assigned.declared, hop.item)?;
    let workqueue = home_words(alloc, assigned, names, hop.item)?;
    if hop.next == hop.item {
        return messages::waits_for_itself(alloc, &item, &workqueue);
    }
    let target = item_words(alloc, assigned.declared, hop.flush.item)?;
    let other = home_words(alloc, assigned, names, hop.flush.item)?;
    messages::waits_for_next(alloc, &item, &workqueue, &target, &other)
}

/// That an item waits for one behind the one that waits.
fn to_behind_words<A: Allocator + Copy>(
    alloc: A,
    assigned: &Assigned<'_, '_, A>,
    names: &[&[u8]],
    hop: &Hop,
) -> Result<Vec<u8, A>, AllocError>
    requires item { hop.now.item < length assigned.now.declared.partition.group_of }
    requires target { hop.now.flush.item < length assigned.now.declared.partition.group_of }
    ensures { IfOk result (λ words. words.items ≡ to_behind_words assigned.now.declared
        assigned.now.workqueues (map (λ n. n.now) names.now) hop.now) }
{
    let item = item_words(alloc, assigned.declared, hop.item)?;
    let workqueue = home_words(alloc, assigned, names, hop.item)?;
    let target = item_words(alloc, assigned.declared, hop.flush.item)?;
    if hop.next == hop.item {
        return messages::waits_for_behind_it(alloc, &item, &workqueue, &target);
    }
    let next = item_words(alloc, assigned.declared, hop.next)?;
    let other = home_words(alloc, assigned, names, hop.flush.item)?;
    messages::waits_for_behind(alloc, &item, &workqueue, &target, &next, &other)
}

/// Which item waits, and for what, on workqueues with these names.
fn wait_words<A: Allocator + Copy>(
    alloc: A,
    assigned: &Assigned<'_, '_, A>,
    names: &[&[u8]],
    hop: &Hop,
) -> Result<Vec<u8, A>, AllocError>
    requires item { hop.now.item < length assigned.now.declared.partition.group_of }
    requires target { hop.now.flush.item < length assigned.now.declared.partition.group_of }
    ensures { IfOk result (λ words. words.items ≡ wait_words assigned.now.declared
        assigned.now.workqueues (map (λ n. n.now) names.now) hop.now) }
{
    if is_on_bare(assigned, hop.flush.item) {
        to_bare_words(alloc, assigned, names, hop)
    } else if hop.flush.whole {
        to_all_words(alloc, assigned, names, hop)
    } else if hop.flush.item == hop.next {
        to_next_words(alloc, assigned, names, hop)
    } else {
        to_behind_words(alloc, assigned, names, hop)
    }
}

/// The words of a wait in this wording.
pub(crate) fn words_of<A: Allocator + Copy>(
    alloc: A,
    wording: Wording,
    assigned: &Assigned<'_, '_, A>,
    names: &[&[u8]],
    hop: &Hop,
) -> Result<Vec<u8, A>, AllocError>
    requires item { hop.now.item < length assigned.now.declared.partition.group_of }
    requires target { hop.now.flush.item < length assigned.now.declared.partition.group_of }
    ensures { IfOk result (λ words. words.items
        ≡ words_of wording assigned.now.declared assigned.now.workqueues
        (map (λ n. n.now) names.now) hop.now) }
{
    match wording {
        Wording::OnWorkqueues => wait_words(alloc, assigned, names, hop),
        Wording::OfGroups => group_wait_words(alloc, assigned.declared, hop),
    }
}
