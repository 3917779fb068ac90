//! The words of a reason why a step isn't lawful.
//!
//! The words are those of "`not lawful N` of `replay`" in tests/DIAGNOSES.md. A call takes the time and the memory of
//! the words.

ghost use Rattle.std.specs.Prelude.{◌≡◌, IfOk, decimal, length, map};
ghost use Rattle.wq_items.specs.Table.{targets_of};
ghost use Rattle.wq_names.specs.Messages.{doesnt_wait, has_made_all, isnt_first, runs};
ghost use Rattle.wq_diagnosis.specs.Reasons.{called_words, nothing_words, reason_words, undeclared_words};
ghost use Rattle.wq_diagnosis.specs.Reasons.{unfinished_words, waiting_words, workqueue_name};
ghost use Rattle.wq_diagnosis.specs.Words.{item_words, workqueue_words};

use crate::unlawful::{Unlawful, named_item, named_workqueue};
use crate::words::{item_words, name_words, workqueue_of, workqueue_words};
use std::alloc::{AllocError, Allocator};
use wq_core::{Assigned, Step, Waiting, Workqueues};
use wq_groups::{Declaration, LaneId};
use wq_items::ItemId;
use wq_names::{messages, name_at};

/// The name of the workqueue of an item; empty if it has none, or if there is no such item.
fn workqueue_name<'a, A: Allocator + Copy>(
    assigned: &Assigned<'_, '_, A>,
    names: &[&'a [u8]],
    item: ItemId,
) -> &'a [u8]
    ensures { result.now
        ≡ workqueue_name assigned.now.declared assigned.now.workqueues (map (λ n. n.now) names.now) item }
{
    if item.get() < assigned.table().len() {
        name_at(names, workqueue_of(assigned, item).get())
    } else {
        &[]
    }
}

/// The name of the workqueue of an item, as it is written after the item.
fn called_words<A: Allocator + Copy>(
    alloc: A,
    assigned: &Assigned<'_, '_, A>,
    names: &[&[u8]],
    item: ItemId,
) -> Result<Vec<u8, A>, AllocError>
    ensures { IfOk result (λ words. words.items
        ≡ called_words assigned.now.declared assigned.now.workqueues (map (λ n. n.now) names.now) item) }
{
    name_words(alloc, workqueue_name(assigned, names, item))
}

/// Says that a workqueue runs an item.
fn runs_words<A: Allocator + Copy>(
    alloc: A,
    declared: &Declaration<'_, A>,
    names: &[&[u8]],
    q: LaneId,
    item: ItemId,
) -> Result<Vec<u8, A>, AllocError>
    ensures { IfOk result (λ words. words.items
        ≡ runs (workqueue_words (map (λ n. n.now) names.now) q) (item_words declared.now item)) }
{
    let workqueue = workqueue_words(alloc, names, q)?;
    let item = item_words(alloc, declared, item)?;
    messages::runs(alloc, &workqueue, &item)
}

/// Says that nothing is pending on a workqueue (if `pending`) or runs on it; or that there is no workqueue with
/// this number.
fn nothing_words<A: Allocator + Copy>(
    alloc: A,
    workqueues: &Workqueues<A>,
    names: &[&[u8]],
    q: LaneId,
    pending: bool,
) -> Result<Vec<u8, A>, AllocError>
    ensures { IfOk result (λ words. words.items
        ≡ nothing_words workqueues.now (map (λ n. n.now) names.now) q pending) }
{
    let workqueue = workqueue_words(alloc, names, q)?;
    if q.get() >= workqueues.assignment().lanes() {
        messages::no_workqueue(alloc, &workqueue)
    } else if pending {
        messages::nothing_is_pending(alloc, &workqueue)
    } else {
        messages::nothing_runs(alloc, &workqueue)
    }
}

/// Says that another item comes first on a workqueue.
fn first_words<A: Allocator + Copy>(
    alloc: A,
    declared: &Declaration<'_, A>,
    names: &[&[u8]],
    q: LaneId,
    item: ItemId,
    first: ItemId,
) -> Result<Vec<u8, A>, AllocError>
    ensures { IfOk result (λ words. words.items ≡ isnt_first (item_words declared.now item)
        (workqueue_words (map (λ n. n.now) names.now) q) (item_words declared.now first)) }
{
    let item = item_words(alloc, declared, item)?;
    let workqueue = workqueue_words(alloc, names, q)?;
    let first = item_words(alloc, declared, first)?;
    messages::isnt_first(alloc, &item, &workqueue, &first)
}

/// Says that an item runs on a workqueue and waits.
fn waiting_words<A: Allocator + Copy>(
    alloc: A,
    assigned: &Assigned<'_, '_, A>,
    names: &[&[u8]],
    q: LaneId,
    item: ItemId,
    flush: Waiting,
) -> Result<Vec<u8, A>, AllocError>
    ensures { IfOk result (λ words. words.items ≡ waiting_words assigned.now.declared
        assigned.now.workqueues (map (λ n. n.now) names.now) q item flush) }
{
    let item = item_words(alloc, assigned.declared, item)?;
    let workqueue = workqueue_words(alloc, names, q)?;
    let target = item_words(alloc, assigned.declared, flush.target)?;
    if !flush.whole {
        return messages::runner_waits(alloc, &item, &workqueue, &target);
    }
    let called = called_words(alloc, assigned, names, flush.target)?;
    messages::runner_waits_for_all(alloc, &item, &workqueue, &target, &called)
}

/// Says that an item runs on a workqueue and declares no such flush.
fn undeclared_words<A: Allocator + Copy>(
    alloc: A,
    declared: &Declaration<'_, A>,
    names: &[&[u8]],
    q: LaneId,
    item: ItemId,
    whole: bool,
    target: ItemId,
) -> Result<Vec<u8, A>, AllocError>
    ensures { IfOk result (λ words. words.items
        ≡ undeclared_words declared.now (map (λ n. n.now) names.now) q item whole target) }
{
    let item = item_words(alloc, declared, item)?;
    let workqueue = workqueue_words(alloc, names, q)?;
    let target = item_words(alloc, declared, target)?;
    if whole {
        messages::declares_no_flushwq(alloc, &item, &workqueue, &target)
    } else {
        messages::declares_no_flush(alloc, &item, &workqueue, &target)
    }
}

/// How many flushes an item declares; 0 if there is no such item.
fn flushes_of<A: Allocator + Copy>(declared: &Declaration<'_, A>, item: ItemId) -> usize
    ensures { result ≡ length (targets_of declared.now.table.waits item) }
{
    if item.get() < declared.table.len() {
        declared.table.waits(item).len()
    } else {
        0
    }
}

/// Says that an item runs on a workqueue and has made all of its waits.
fn made_words<A: Allocator + Copy>(
    alloc: A,
    declared: &Declaration<'_, A>,
    names: &[&[u8]],
    q: LaneId,
    item: ItemId,
) -> Result<Vec<u8, A>, AllocError>
    ensures { IfOk result (λ words. words.items ≡ has_made_all (item_words declared.now item)
        (workqueue_words (map (λ n. n.now) names.now) q)
        (decimal (length (targets_of declared.now.table.waits item)))) }
{
    let flushes = flushes_of(declared, item).to_string(alloc)?;
    let item = item_words(alloc, declared, item)?;
    let workqueue = workqueue_words(alloc, names, q)?;
    messages::has_made_all(alloc, &item, &workqueue, flushes.as_bytes())
}

/// Says that an item runs on a workqueue and doesn't wait.
fn awake_words<A: Allocator + Copy>(
    alloc: A,
    declared: &Declaration<'_, A>,
    names: &[&[u8]],
    q: LaneId,
    item: ItemId,
) -> Result<Vec<u8, A>, AllocError>
    ensures { IfOk result (λ words. words.items
        ≡ doesnt_wait (item_words declared.now item) (workqueue_words (map (λ n. n.now) names.now) q)) }
{
    let item = item_words(alloc, declared, item)?;
    let workqueue = workqueue_words(alloc, names, q)?;
    messages::doesnt_wait(alloc, &item, &workqueue)
}

/// Says that an entry of an item is unfinished or, if `whole`, one on its workqueue.
fn unfinished_words<A: Allocator + Copy>(
    alloc: A,
    assigned: &Assigned<'_, '_, A>,
    names: &[&[u8]],
    whole: bool,
    item: ItemId,
) -> Result<Vec<u8, A>, AllocError>
    ensures { IfOk result (λ words. words.items ≡ unfinished_words assigned.now.declared
        assigned.now.workqueues (map (λ n. n.now) names.now) whole item) }
{
    let words = item_words(alloc, assigned.declared, item)?;
    if !whole {
        return messages::is_unfinished(alloc, &words);
    }
    let called = called_words(alloc, assigned, names, item)?;
    messages::one_is_unfinished(alloc, &words, &called)
}

/// Why a step isn't lawful, in words.
pub(crate) fn reason_words<A: Allocator + Copy>(
    alloc: A,
    assigned: &Assigned<'_, '_, A>,
    names: &[&[u8]],
    step: Step,
    reason: Unlawful,
) -> Result<Vec<u8, A>, AllocError>
    ensures { IfOk result (λ words. words.items ≡ reason_words assigned.now.declared
        assigned.now.workqueues (map (λ n. n.now) names.now) step reason) }
{
    let declared = assigned.declared;
    let workqueues = assigned.workqueues;
    let q = named_workqueue(step);
    let item = named_item(step);
    match reason {
        Unlawful::NoItem => Vec::from_slice(alloc, messages::NO_SUCH_ITEM),
        Unlawful::Pending => messages::is_pending(alloc, &item_words(alloc, declared, item)?),
        Unlawful::NotPending => messages::isnt_pending(alloc, &item_words(alloc, declared, item)?),
        Unlawful::Runs(other) => runs_words(alloc, declared, names, q, other),
        Unlawful::NothingPending => nothing_words(alloc, workqueues, names, q, true),
        Unlawful::First(first) => first_words(alloc, declared, names, q, item, first),
        Unlawful::NothingRuns => nothing_words(alloc, workqueues, names, q, false),
        Unlawful::Waits(other, flush) => waiting_words(alloc, assigned, names, q, other, flush),
        Unlawful::Undeclared(other, whole) => {
            undeclared_words(alloc, declared, names, q, other, whole, item)
        }
        Unlawful::AllMade(other) => made_words(alloc, declared, names, q, other),
        Unlawful::Awake(other) => awake_words(alloc, declared, names, q, other),
        Unlawful::Unfinished(whole) => unfinished_words(alloc, assigned, names, whole, item),
    }
}
