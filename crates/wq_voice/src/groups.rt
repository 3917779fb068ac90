//! The words of waits of groups, whatever their workqueues.
//!
//! The words are those of "Where workqueues can hang" in tests/DIAGNOSES.md. A call
//! takes the time and the memory of the words.

ghost use Rattle.std.specs.Prelude.{◌≡◌, IfOk};
ghost use Rattle.wq_voice.specs.Waits.{group_to_all_words, group_to_behind_words, group_to_next_words};
ghost use Rattle.wq_voice.specs.Waits.{group_wait_words};

use std::alloc::{AllocError, Allocator};
use wq_diagnosis::item_words;
use wq_groups::Declaration;
use wq_hang::Hop;
use wq_names::messages;

/// That an item waits for a whole workqueue, on which an item waits.
fn group_to_all_words<A: Allocator + Copy>(
    alloc: A,
    declared: &Declaration<'_, A>,
    hop: &Hop,
) -> Result<Vec<u8, A>, AllocError>
    ensures { IfOk result (λ words. words.items ≡ group_to_all_words declared.now hop.now) }
{
    let item = item_words(alloc, declared, hop.item)?;
    if hop.next == hop.item {
        return messages::group_waits_for_all_of_its_own(alloc, &item);
    }
    let target = item_words(alloc, declared, hop.flush.item)?;
    let next = item_words(alloc, declared, hop.next)?;
    messages::group_waits_for_all(alloc, &item, &target, &next)
}

/// That an item waits for an item that waits, too.
fn group_to_next_words<A: Allocator + Copy>(
    alloc: A,
    declared: &Declaration<'_, A>,
    hop: &Hop,
) -> Result<Vec<u8, A>, AllocError>
    ensures { IfOk result (λ words. words.items ≡ group_to_next_words declared.now hop.now) }
{
    let item = item_words(alloc, declared, hop.item)?;
    if hop.next == hop.item {
        return messages::group_waits_for_itself(alloc, &item);
    }
    let target = item_words(alloc, declared, hop.flush.item)?;
    messages::group_waits_for_next(alloc, &item, &target)
}

/// That an item waits for one behind the one that waits, since both are `ordered`.
fn group_to_behind_words<A: Allocator + Copy>(
    alloc: A,
    declared: &Declaration<'_, A>,
    hop: &Hop,
) -> Result<Vec<u8, A>, AllocError>
    ensures { IfOk result (λ words. words.items ≡ group_to_behind_words declared.now hop.now) }
{
    let item = item_words(alloc, declared, hop.item)?;
    let target = item_words(alloc, declared, hop.flush.item)?;
    if hop.next == hop.item {
        return messages::group_waits_for_behind_it(alloc, &item, &target);
    }
    let next = item_words(alloc, declared, hop.next)?;
    messages::group_waits_for_behind(alloc, &item, &target, &next)
}

/// Which group waits, and for what.
pub(crate) fn group_wait_words<A: Allocator + Copy>(
    alloc: A,
    declared: &Declaration<'_, A>,
    hop: &Hop,
) -> Result<Vec<u8, A>, AllocError>
    ensures { IfOk result (λ words. words.items ≡ group_wait_words declared.now hop.now) }
{
    if hop.flush.whole {
        group_to_all_words(alloc, declared, hop)
    } else if hop.flush.item == hop.next {
        group_to_next_words(alloc, declared, hop)
    } else {
        group_to_behind_words(alloc, declared, hop)
    }
}
