//! The messages of standard error. tests/docs/made.py makes this file from docs/tables/messages.txt.
//!
//! Each is a function of what stands in it. A call takes the time and the memory of the words.

ghost use Rattle.std.specs.Prelude.{◌≡◌, IfOk};
ghost use Rattle.wq_names.specs.Messages.{an_item, a_workqueue, its_name, at_place, answered, answered_unlawful};
ghost use Rattle.wq_names.specs.Messages.{failed, no_item, is_pending, isnt_pending, runs, nothing_is_pending};
ghost use Rattle.wq_names.specs.Messages.{nothing_runs, no_workqueue, isnt_first, runner_waits};
ghost use Rattle.wq_names.specs.Messages.{runner_waits_for_all, declares_no_flush, declares_no_flushwq};
ghost use Rattle.wq_names.specs.Messages.{has_made_all, doesnt_wait, is_unfinished, one_is_unfinished};
ghost use Rattle.wq_names.specs.Messages.{has_no_rescuer, waits_for_bare, waits_for_all_of_bare, waits_for_next};
ghost use Rattle.wq_names.specs.Messages.{waits_for_itself, waits_for_behind, waits_for_behind_it};
ghost use Rattle.wq_names.specs.Messages.{waits_for_all, waits_for_all_of_its_own, held_on, held_on_if};
ghost use Rattle.wq_names.specs.Messages.{held_behind, held_behind_if, held_bare, rest_bare, rest_all_of_bare};
ghost use Rattle.wq_names.specs.Messages.{rest_next, rest_behind, rest_behind_it, rest_all, nothing_flushes_on};
ghost use Rattle.wq_names.specs.Messages.{nothing_flushes_on_these, others_can_hang, group_waits_for_next};
ghost use Rattle.wq_names.specs.Messages.{group_waits_for_itself, group_waits_for_behind};
ghost use Rattle.wq_names.specs.Messages.{group_waits_for_behind_it, group_waits_for_all};
ghost use Rattle.wq_names.specs.Messages.{group_waits_for_all_of_its_own, is_given, moves, with_more, a_new_one};
ghost use Rattle.wq_names.specs.Messages.{which_is_given, names_are_too_few, unknown_item, did_you_mean};
ghost use Rattle.wq_names.specs.Messages.{item_on_workqueue, nothing_guarantees, declare_who_waits};
ghost use Rattle.wq_names.specs.Messages.{safe_whatever, safe_whatever_one, hangs_for_sure, arent_decided};
ghost use Rattle.wq_names.specs.Messages.{isnt_decided, make_no_difference, makes_no_difference, unsure_lines};
ghost use Rattle.wq_names.specs.Messages.{are_needed, are_needed_not_one};

use std::alloc::{AllocError, Allocator};
use wq_text::put;

/// An item.
pub fn an_item<A: Allocator + Copy>(alloc: A, name: &[u8]) -> Result<Vec<u8, A>, AllocError>
    ensures { IfOk result (λ words. words.items ≡ an_item name.now) }
{
    let mut words = Vec::with_capacity(alloc, 34)?;
    put(&mut words, b"`")?;
    put(&mut words, name)?;
    put(&mut words, b"`")?;
    Ok(words)
}

/// A workqueue: its number, followed by its name if it has one.
pub fn a_workqueue<A: Allocator + Copy>(
    alloc: A,
    number: &[u8],
    called: &[u8],
) -> Result<Vec<u8, A>, AllocError>
    ensures { IfOk result (λ words. words.items ≡ a_workqueue number.now called.now) }
{
    let mut words = Vec::with_capacity(alloc, 74)?;
    put(&mut words, b"workqueue ")?;
    put(&mut words, number)?;
    put(&mut words, called)?;
    Ok(words)
}

/// The name of a workqueue, after its number or after an item on it.
pub fn its_name<A: Allocator + Copy>(alloc: A, name: &[u8]) -> Result<Vec<u8, A>, AllocError>
    ensures { IfOk result (λ words. words.items ≡ its_name name.now) }
{
    let mut words = Vec::with_capacity(alloc, 35)?;
    put(&mut words, b" (")?;
    put(&mut words, name)?;
    put(&mut words, b")")?;
    Ok(words)
}

/// The first line of what is said about a place in a file.
pub fn at_place<A: Allocator + Copy>(
    alloc: A,
    file: &[u8],
    place: &[u8],
    what: &[u8],
) -> Result<Vec<u8, A>, AllocError>
    ensures { IfOk result (λ words. words.items ≡ at_place file.now place.now what.now) }
{
    let mut words = Vec::with_capacity(alloc, 98)?;
    put(&mut words, file)?;
    put(&mut words, place)?;
    put(&mut words, b": ")?;
    put(&mut words, what)?;
    Ok(words)
}

/// The first line of what is said about a place in a file, for an answer with a number.
pub fn answered<A: Allocator + Copy>(
    alloc: A,
    file: &[u8],
    place: &[u8],
    what: &[u8],
    word: &[u8],
    code: &[u8],
) -> Result<Vec<u8, A>, AllocError>
    ensures { IfOk result (λ words. words.items ≡ answered file.now place.now what.now word.now code.now) }
{
    let mut words = Vec::with_capacity(alloc, 217)?;
    put(&mut words, file)?;
    put(&mut words, place)?;
    put(&mut words, b": ")?;
    put(&mut words, what)?;
    put(&mut words, b" [")?;
    put(&mut words, word)?;
    put(&mut words, b" ")?;
    put(&mut words, code)?;
    put(&mut words, b", `wqplan explain ")?;
    put(&mut words, code)?;
    put(&mut words, b"`]")?;
    Ok(words)
}

/// The first line of what is said about a place in a file, for a step that isn't lawful.
pub fn answered_unlawful<A: Allocator + Copy>(
    alloc: A,
    file: &[u8],
    place: &[u8],
    what: &[u8],
    number: &[u8],
) -> Result<Vec<u8, A>, AllocError>
    ensures { IfOk result (λ words. words.items ≡ answered_unlawful file.now place.now what.now number.now) }
{
    let mut words = Vec::with_capacity(alloc, 144)?;
    put(&mut words, file)?;
    put(&mut words, place)?;
    put(&mut words, b": ")?;
    put(&mut words, what)?;
    put(&mut words, b" [not lawful ")?;
    put(&mut words, number)?;
    put(&mut words, b"]")?;
    Ok(words)
}

/// A file can't be opened, read or written.
pub fn failed<A: Allocator + Copy>(
    alloc: A,
    file: &[u8],
    why: &[u8],
) -> Result<Vec<u8, A>, AllocError>
    ensures { IfOk result (λ words. words.items ≡ failed file.now why.now) }
{
    let mut words = Vec::with_capacity(alloc, 74)?;
    put(&mut words, b"wqplan: ")?;
    put(&mut words, file)?;
    put(&mut words, b": ")?;
    put(&mut words, why)?;
    Ok(words)
}

/// A declaration declares no item.
pub fn no_item<A: Allocator + Copy>(alloc: A, file: &[u8]) -> Result<Vec<u8, A>, AllocError>
    ensures { IfOk result (λ words. words.items ≡ no_item file.now) }
{
    let mut words = Vec::with_capacity(alloc, 84)?;
    put(&mut words, file)?;
    put(
        &mut words,
        b": note: no item is declared: is this the right file?",
    )?;
    Ok(words)
}

/// A step names no item.
pub const NO_SUCH_ITEM: &[u8] = b"there is no such item";

/// The item can't be queued.
pub fn is_pending<A: Allocator + Copy>(alloc: A, item: &[u8]) -> Result<Vec<u8, A>, AllocError>
    ensures { IfOk result (λ words. words.items ≡ is_pending item.now) }
{
    let mut words = Vec::with_capacity(alloc, 51)?;
    put(&mut words, item)?;
    put(&mut words, b" is pending already")?;
    Ok(words)
}

/// The item can't be cancelled.
pub fn isnt_pending<A: Allocator + Copy>(alloc: A, item: &[u8]) -> Result<Vec<u8, A>, AllocError>
    ensures { IfOk result (λ words. words.items ≡ isnt_pending item.now) }
{
    let mut words = Vec::with_capacity(alloc, 46)?;
    put(&mut words, item)?;
    put(&mut words, b" isn't pending")?;
    Ok(words)
}

/// The workqueue runs another item.
pub fn runs<A: Allocator + Copy>(
    alloc: A,
    workqueue: &[u8],
    item: &[u8],
) -> Result<Vec<u8, A>, AllocError>
    ensures { IfOk result (λ words. words.items ≡ runs workqueue.now item.now) }
{
    let mut words = Vec::with_capacity(alloc, 70)?;
    put(&mut words, workqueue)?;
    put(&mut words, b" runs ")?;
    put(&mut words, item)?;
    Ok(words)
}

/// The workqueue has nothing to start.
pub fn nothing_is_pending<A: Allocator + Copy>(
    alloc: A,
    workqueue: &[u8],
) -> Result<Vec<u8, A>, AllocError>
    ensures { IfOk result (λ words. words.items ≡ nothing_is_pending workqueue.now) }
{
    let mut words = Vec::with_capacity(alloc, 54)?;
    put(&mut words, b"nothing is pending on ")?;
    put(&mut words, workqueue)?;
    Ok(words)
}

/// The workqueue runs nothing.
pub fn nothing_runs<A: Allocator + Copy>(
    alloc: A,
    workqueue: &[u8],
) -> Result<Vec<u8, A>, AllocError>
    ensures { IfOk result (λ words. words.items ≡ nothing_runs workqueue.now) }
{
    let mut words = Vec::with_capacity(alloc, 48)?;
    put(&mut words, b"nothing runs on ")?;
    put(&mut words, workqueue)?;
    Ok(words)
}

/// A step names no workqueue.
pub fn no_workqueue<A: Allocator + Copy>(
    alloc: A,
    workqueue: &[u8],
) -> Result<Vec<u8, A>, AllocError>
    ensures { IfOk result (λ words. words.items ≡ no_workqueue workqueue.now) }
{
    let mut words = Vec::with_capacity(alloc, 44)?;
    put(&mut words, b"there is no ")?;
    put(&mut words, workqueue)?;
    Ok(words)
}

/// Another item comes first on the workqueue.
pub fn isnt_first<A: Allocator + Copy>(
    alloc: A,
    item: &[u8],
    workqueue: &[u8],
    first: &[u8],
) -> Result<Vec<u8, A>, AllocError>
    ensures { IfOk result (λ words. words.items ≡ isnt_first item.now workqueue.now first.now) }
{
    let mut words = Vec::with_capacity(alloc, 133)?;
    put(&mut words, item)?;
    put(&mut words, b" isn't the first entry of ")?;
    put(&mut words, workqueue)?;
    put(&mut words, b", which is ")?;
    put(&mut words, first)?;
    Ok(words)
}

/// What runs on the workqueue waits for an item.
pub fn runner_waits<A: Allocator + Copy>(
    alloc: A,
    item: &[u8],
    workqueue: &[u8],
    target: &[u8],
) -> Result<Vec<u8, A>, AllocError>
    ensures { IfOk result (λ words. words.items ≡ runner_waits item.now workqueue.now target.now) }
{
    let mut words = Vec::with_capacity(alloc, 124)?;
    put(&mut words, item)?;
    put(&mut words, b", which runs on ")?;
    put(&mut words, workqueue)?;
    put(&mut words, b", waits for ")?;
    put(&mut words, target)?;
    Ok(words)
}

/// What runs on the workqueue waits for the whole workqueue of an item.
pub fn runner_waits_for_all<A: Allocator + Copy>(
    alloc: A,
    item: &[u8],
    workqueue: &[u8],
    target: &[u8],
    called: &[u8],
) -> Result<Vec<u8, A>, AllocError>
    ensures { IfOk result (λ words. words.items ≡ runner_waits_for_all item.now workqueue.now target.now
        called.now) }
{
    let mut words = Vec::with_capacity(alloc, 173)?;
    put(&mut words, item)?;
    put(&mut words, b", which runs on ")?;
    put(&mut words, workqueue)?;
    put(&mut words, b", waits for the workqueue of ")?;
    put(&mut words, target)?;
    put(&mut words, called)?;
    Ok(words)
}

/// What runs on the workqueue declares no flush of the item.
pub fn declares_no_flush<A: Allocator + Copy>(
    alloc: A,
    item: &[u8],
    workqueue: &[u8],
    target: &[u8],
) -> Result<Vec<u8, A>, AllocError>
    ensures { IfOk result (λ words. words.items ≡ declares_no_flush item.now workqueue.now target.now) }
{
    let mut words = Vec::with_capacity(alloc, 135)?;
    put(&mut words, item)?;
    put(&mut words, b", which runs on ")?;
    put(&mut words, workqueue)?;
    put(&mut words, b", declares no flush of ")?;
    put(&mut words, target)?;
    Ok(words)
}

/// What runs on the workqueue declares no flush of the item's whole workqueue.
pub fn declares_no_flushwq<A: Allocator + Copy>(
    alloc: A,
    item: &[u8],
    workqueue: &[u8],
    target: &[u8],
) -> Result<Vec<u8, A>, AllocError>
    ensures { IfOk result (λ words. words.items ≡ declares_no_flushwq item.now workqueue.now target.now) }
{
    let mut words = Vec::with_capacity(alloc, 139)?;
    put(&mut words, item)?;
    put(&mut words, b", which runs on ")?;
    put(&mut words, workqueue)?;
    put(&mut words, b", declares no `flushwq` of ")?;
    put(&mut words, target)?;
    Ok(words)
}

/// What runs on the workqueue has made as many waits as it declares flushes.
pub fn has_made_all<A: Allocator + Copy>(
    alloc: A,
    item: &[u8],
    workqueue: &[u8],
    number: &[u8],
) -> Result<Vec<u8, A>, AllocError>
    ensures { IfOk result (λ words. words.items ≡ has_made_all item.now workqueue.now number.now) }
{
    let mut words = Vec::with_capacity(alloc, 141)?;
    put(&mut words, item)?;
    put(&mut words, b", which runs on ")?;
    put(&mut words, workqueue)?;
    put(&mut words, b", has made all of its waits: ")?;
    put(&mut words, number)?;
    Ok(words)
}

/// What runs on the workqueue is awake.
pub fn doesnt_wait<A: Allocator + Copy>(
    alloc: A,
    item: &[u8],
    workqueue: &[u8],
) -> Result<Vec<u8, A>, AllocError>
    ensures { IfOk result (λ words. words.items ≡ doesnt_wait item.now workqueue.now) }
{
    let mut words = Vec::with_capacity(alloc, 94)?;
    put(&mut words, item)?;
    put(&mut words, b", which runs on ")?;
    put(&mut words, workqueue)?;
    put(&mut words, b", doesn't wait")?;
    Ok(words)
}

/// An entry of the item is from before the wait.
pub fn is_unfinished<A: Allocator + Copy>(alloc: A, item: &[u8]) -> Result<Vec<u8, A>, AllocError>
    ensures { IfOk result (λ words. words.items ≡ is_unfinished item.now) }
{
    let mut words = Vec::with_capacity(alloc, 80)?;
    put(&mut words, b"an entry of ")?;
    put(&mut words, item)?;
    put(&mut words, b" from before this wait is unfinished")?;
    Ok(words)
}

/// An entry on the whole workqueue of the item is from before the wait.
pub fn one_is_unfinished<A: Allocator + Copy>(
    alloc: A,
    item: &[u8],
    called: &[u8],
) -> Result<Vec<u8, A>, AllocError>
    ensures { IfOk result (λ words. words.items ≡ one_is_unfinished item.now called.now) }
{
    let mut words = Vec::with_capacity(alloc, 129)?;
    put(
        &mut words,
        b"an entry from before this wait is unfinished on the workqueue of ",
    )?;
    put(&mut words, item)?;
    put(&mut words, called)?;
    Ok(words)
}

/// Before the first wait of a circular wait, and before a flush that leads to no rescuer.
pub const CAN_HANG: &[u8] = b"can hang: ";

/// Before the first wait of a circular wait that `plan` answers.
pub const CAN_HANG_ON_ANY: &[u8] = b"can hang on any workqueues: ";

/// Before the first wait of a circular wait, or a flush that leads to no rescuer, if it is unsure.
pub const CAN_HANG_IF: &[u8] = b"can hang if this is so: ";

/// Before the first wait of a circular wait that `plan` answers, if it is unsure.
pub const CAN_HANG_ON_ANY_IF: &[u8] = b"can hang on any workqueues if this is so: ";

/// Before each further wait of a circular wait.
pub const AND_FURTHER: &[u8] = b"and ";

/// Before each further wait of a circular wait, if it is unsure.
pub const AND_FURTHER_IF: &[u8] = b"and if this is so: ";

/// A workqueue without a rescuer.
pub fn has_no_rescuer<A: Allocator + Copy>(
    alloc: A,
    workqueue: &[u8],
) -> Result<Vec<u8, A>, AllocError>
    ensures { IfOk result (λ words. words.items ≡ has_no_rescuer workqueue.now) }
{
    let mut words = Vec::with_capacity(alloc, 47)?;
    put(&mut words, workqueue)?;
    put(&mut words, b" has no rescuer")?;
    Ok(words)
}

/// An item waits for one on a workqueue without a rescuer.
pub fn waits_for_bare<A: Allocator + Copy>(
    alloc: A,
    item: &[u8],
    workqueue: &[u8],
    target: &[u8],
    other: &[u8],
) -> Result<Vec<u8, A>, AllocError>
    ensures { IfOk result (λ words. words.items ≡ waits_for_bare item.now workqueue.now target.now other.now) }
{
    let mut words = Vec::with_capacity(alloc, 195)?;
    put(&mut words, item)?;
    put(&mut words, b", on ")?;
    put(&mut words, workqueue)?;
    put(&mut words, b", waits for ")?;
    put(&mut words, target)?;
    put(&mut words, b", which nothing guarantees to run: ")?;
    put(&mut words, other)?;
    put(&mut words, b" has no rescuer")?;
    Ok(words)
}

/// An item waits for a whole workqueue without a rescuer.
pub fn waits_for_all_of_bare<A: Allocator + Copy>(
    alloc: A,
    item: &[u8],
    workqueue: &[u8],
    target: &[u8],
    other: &[u8],
) -> Result<Vec<u8, A>, AllocError>
    ensures { IfOk result (λ words. words.items ≡ waits_for_all_of_bare item.now workqueue.now target.now
        other.now) }
{
    let mut words = Vec::with_capacity(alloc, 212)?;
    put(&mut words, item)?;
    put(&mut words, b", on ")?;
    put(&mut words, workqueue)?;
    put(&mut words, b", waits for the workqueue of ")?;
    put(&mut words, target)?;
    put(&mut words, b", which nothing guarantees to run: ")?;
    put(&mut words, other)?;
    put(&mut words, b" has no rescuer")?;
    Ok(words)
}

/// An item waits for the one that waits next.
pub fn waits_for_next<A: Allocator + Copy>(
    alloc: A,
    item: &[u8],
    workqueue: &[u8],
    target: &[u8],
    other: &[u8],
) -> Result<Vec<u8, A>, AllocError>
    ensures { IfOk result (λ words. words.items ≡ waits_for_next item.now workqueue.now target.now other.now) }
{
    let mut words = Vec::with_capacity(alloc, 162)?;
    put(&mut words, item)?;
    put(&mut words, b", on ")?;
    put(&mut words, workqueue)?;
    put(&mut words, b", waits for ")?;
    put(&mut words, target)?;
    put(&mut words, b", which waits on ")?;
    put(&mut words, other)?;
    Ok(words)
}

/// An item waits for itself.
pub fn waits_for_itself<A: Allocator + Copy>(
    alloc: A,
    item: &[u8],
    workqueue: &[u8],
) -> Result<Vec<u8, A>, AllocError>
    ensures { IfOk result (λ words. words.items ≡ waits_for_itself item.now workqueue.now) }
{
    let mut words = Vec::with_capacity(alloc, 87)?;
    put(&mut words, item)?;
    put(&mut words, b", on ")?;
    put(&mut words, workqueue)?;
    put(&mut words, b", waits for itself")?;
    Ok(words)
}

/// An item waits for one behind the one that waits next.
pub fn waits_for_behind<A: Allocator + Copy>(
    alloc: A,
    item: &[u8],
    workqueue: &[u8],
    target: &[u8],
    next: &[u8],
    other: &[u8],
) -> Result<Vec<u8, A>, AllocError>
    ensures { IfOk result (λ words. words.items ≡ waits_for_behind item.now workqueue.now target.now next.now
        other.now) }
{
    let mut words = Vec::with_capacity(alloc, 199)?;
    put(&mut words, item)?;
    put(&mut words, b", on ")?;
    put(&mut words, workqueue)?;
    put(&mut words, b", waits for ")?;
    put(&mut words, target)?;
    put(&mut words, b", which is behind ")?;
    put(&mut words, next)?;
    put(&mut words, b" on ")?;
    put(&mut words, other)?;
    Ok(words)
}

/// An item waits for one behind itself.
pub fn waits_for_behind_it<A: Allocator + Copy>(
    alloc: A,
    item: &[u8],
    workqueue: &[u8],
    target: &[u8],
) -> Result<Vec<u8, A>, AllocError>
    ensures { IfOk result (λ words. words.items ≡ waits_for_behind_it item.now workqueue.now target.now) }
{
    let mut words = Vec::with_capacity(alloc, 133)?;
    put(&mut words, item)?;
    put(&mut words, b", on ")?;
    put(&mut words, workqueue)?;
    put(&mut words, b", waits for ")?;
    put(&mut words, target)?;
    put(&mut words, b", which is behind it")?;
    Ok(words)
}

/// An item waits for a whole workqueue, on which the next one waits.
pub fn waits_for_all<A: Allocator + Copy>(
    alloc: A,
    item: &[u8],
    workqueue: &[u8],
    other: &[u8],
    next: &[u8],
) -> Result<Vec<u8, A>, AllocError>
    ensures { IfOk result (λ words. words.items ≡ waits_for_all item.now workqueue.now other.now next.now) }
{
    let mut words = Vec::with_capacity(alloc, 166)?;
    put(&mut words, item)?;
    put(&mut words, b", on ")?;
    put(&mut words, workqueue)?;
    put(&mut words, b", waits for all of ")?;
    put(&mut words, other)?;
    put(&mut words, b", where ")?;
    put(&mut words, next)?;
    put(&mut words, b" waits")?;
    Ok(words)
}

/// An item waits for its own whole workqueue.
pub fn waits_for_all_of_its_own<A: Allocator + Copy>(
    alloc: A,
    item: &[u8],
    workqueue: &[u8],
) -> Result<Vec<u8, A>, AllocError>
    ensures { IfOk result (λ words. words.items ≡ waits_for_all_of_its_own item.now workqueue.now) }
{
    let mut words = Vec::with_capacity(alloc, 101)?;
    put(&mut words, item)?;
    put(&mut words, b", on ")?;
    put(&mut words, workqueue)?;
    put(&mut words, b", waits for all of its workqueue")?;
    Ok(words)
}

/// The first wait where an item that must go on is held up: it waits itself.
pub fn held_on<A: Allocator + Copy>(
    alloc: A,
    item: &[u8],
    workqueue: &[u8],
    rest: &[u8],
) -> Result<Vec<u8, A>, AllocError>
    ensures { IfOk result (λ words. words.items ≡ held_on item.now workqueue.now rest.now) }
{
    let mut words = Vec::with_capacity(alloc, 117)?;
    put(&mut words, item)?;
    put(&mut words, b" is held up: on ")?;
    put(&mut words, workqueue)?;
    put(&mut words, b", it ")?;
    put(&mut words, rest)?;
    Ok(words)
}

/// The same, where the flush is unsure.
pub fn held_on_if<A: Allocator + Copy>(
    alloc: A,
    item: &[u8],
    workqueue: &[u8],
    rest: &[u8],
) -> Result<Vec<u8, A>, AllocError>
    ensures { IfOk result (λ words. words.items ≡ held_on_if item.now workqueue.now rest.now) }
{
    let mut words = Vec::with_capacity(alloc, 132)?;
    put(&mut words, item)?;
    put(&mut words, b" is held up, if this is so: on ")?;
    put(&mut words, workqueue)?;
    put(&mut words, b", it ")?;
    put(&mut words, rest)?;
    Ok(words)
}

/// The same, where another item waits in front of it.
pub fn held_behind<A: Allocator + Copy>(
    alloc: A,
    item: &[u8],
    first: &[u8],
    workqueue: &[u8],
    rest: &[u8],
) -> Result<Vec<u8, A>, AllocError>
    ensures { IfOk result (λ words. words.items ≡ held_behind item.now first.now workqueue.now rest.now) }
{
    let mut words = Vec::with_capacity(alloc, 166)?;
    put(&mut words, item)?;
    put(&mut words, b" is held up: it is behind ")?;
    put(&mut words, first)?;
    put(&mut words, b" on ")?;
    put(&mut words, workqueue)?;
    put(&mut words, b", which ")?;
    put(&mut words, rest)?;
    Ok(words)
}

/// The same, where the flush is unsure.
pub fn held_behind_if<A: Allocator + Copy>(
    alloc: A,
    item: &[u8],
    first: &[u8],
    workqueue: &[u8],
    rest: &[u8],
) -> Result<Vec<u8, A>, AllocError>
    ensures { IfOk result (λ words. words.items ≡ held_behind_if item.now first.now workqueue.now rest.now) }
{
    let mut words = Vec::with_capacity(alloc, 181)?;
    put(&mut words, item)?;
    put(&mut words, b" is held up, if this is so: it is behind ")?;
    put(&mut words, first)?;
    put(&mut words, b" on ")?;
    put(&mut words, workqueue)?;
    put(&mut words, b", which ")?;
    put(&mut words, rest)?;
    Ok(words)
}

/// An item that must go on is on a workqueue without a rescuer.
pub fn held_bare<A: Allocator + Copy>(
    alloc: A,
    item: &[u8],
    workqueue: &[u8],
) -> Result<Vec<u8, A>, AllocError>
    ensures { IfOk result (λ words. words.items ≡ held_bare item.now workqueue.now) }
{
    let mut words = Vec::with_capacity(alloc, 125)?;
    put(&mut words, item)?;
    put(
        &mut words,
        b" is held up: nothing guarantees that it runs: ",
    )?;
    put(&mut words, workqueue)?;
    put(&mut words, b" has no rescuer")?;
    Ok(words)
}

/// Behind `held_behind`: the item in front waits for the one that must go on.
pub const REST_FOR_IT: &[u8] = b"waits for it";

/// Behind these: an item waits for one on a workqueue without a rescuer.
pub fn rest_bare<A: Allocator + Copy>(
    alloc: A,
    target: &[u8],
    other: &[u8],
) -> Result<Vec<u8, A>, AllocError>
    ensures { IfOk result (λ words. words.items ≡ rest_bare target.now other.now) }
{
    let mut words = Vec::with_capacity(alloc, 124)?;
    put(&mut words, b"waits for ")?;
    put(&mut words, target)?;
    put(&mut words, b", which nothing guarantees to run: ")?;
    put(&mut words, other)?;
    put(&mut words, b" has no rescuer")?;
    Ok(words)
}

/// Behind these: an item waits for a whole workqueue without a rescuer.
pub fn rest_all_of_bare<A: Allocator + Copy>(
    alloc: A,
    target: &[u8],
    other: &[u8],
) -> Result<Vec<u8, A>, AllocError>
    ensures { IfOk result (λ words. words.items ≡ rest_all_of_bare target.now other.now) }
{
    let mut words = Vec::with_capacity(alloc, 141)?;
    put(&mut words, b"waits for the workqueue of ")?;
    put(&mut words, target)?;
    put(&mut words, b", which nothing guarantees to run: ")?;
    put(&mut words, other)?;
    put(&mut words, b" has no rescuer")?;
    Ok(words)
}

/// Behind these: an item waits for the one that waits next.
pub fn rest_next<A: Allocator + Copy>(
    alloc: A,
    target: &[u8],
    other: &[u8],
) -> Result<Vec<u8, A>, AllocError>
    ensures { IfOk result (λ words. words.items ≡ rest_next target.now other.now) }
{
    let mut words = Vec::with_capacity(alloc, 91)?;
    put(&mut words, b"waits for ")?;
    put(&mut words, target)?;
    put(&mut words, b", which waits on ")?;
    put(&mut words, other)?;
    Ok(words)
}

/// Behind these: an item waits for itself.
pub const REST_ITSELF: &[u8] = b"waits for itself";

/// Behind these: an item waits for one behind the one that waits next.
pub fn rest_behind<A: Allocator + Copy>(
    alloc: A,
    target: &[u8],
    next: &[u8],
    other: &[u8],
) -> Result<Vec<u8, A>, AllocError>
    ensures { IfOk result (λ words. words.items ≡ rest_behind target.now next.now other.now) }
{
    let mut words = Vec::with_capacity(alloc, 128)?;
    put(&mut words, b"waits for ")?;
    put(&mut words, target)?;
    put(&mut words, b", which is behind ")?;
    put(&mut words, next)?;
    put(&mut words, b" on ")?;
    put(&mut words, other)?;
    Ok(words)
}

/// Behind these: an item waits for one behind itself.
pub fn rest_behind_it<A: Allocator + Copy>(
    alloc: A,
    target: &[u8],
) -> Result<Vec<u8, A>, AllocError>
    ensures { IfOk result (λ words. words.items ≡ rest_behind_it target.now) }
{
    let mut words = Vec::with_capacity(alloc, 62)?;
    put(&mut words, b"waits for ")?;
    put(&mut words, target)?;
    put(&mut words, b", which is behind it")?;
    Ok(words)
}

/// Behind these: an item waits for a whole workqueue, on which the next one waits.
pub fn rest_all<A: Allocator + Copy>(
    alloc: A,
    other: &[u8],
    next: &[u8],
) -> Result<Vec<u8, A>, AllocError>
    ensures { IfOk result (λ words. words.items ≡ rest_all other.now next.now) }
{
    let mut words = Vec::with_capacity(alloc, 95)?;
    put(&mut words, b"waits for all of ")?;
    put(&mut words, other)?;
    put(&mut words, b", where ")?;
    put(&mut words, next)?;
    put(&mut words, b" waits")?;
    Ok(words)
}

/// Behind these: an item waits for its own whole workqueue.
pub const REST_ALL_OF_ITS_OWN: &[u8] = b"waits for all of its workqueue";

/// The note beside `safe` of items that must go on: nothing on the workqueue of this one waits.
pub fn nothing_flushes_on<A: Allocator + Copy>(
    alloc: A,
    file: &[u8],
    item: &[u8],
) -> Result<Vec<u8, A>, AllocError>
    ensures { IfOk result (λ words. words.items ≡ nothing_flushes_on file.now item.now) }
{
    let mut words = Vec::with_capacity(alloc, 180)?;
    put(&mut words, file)?;
    put(&mut words, b": note: nothing on the workqueue of ")?;
    put(&mut words, item)?;
    put(
        &mut words,
        b" declares a flush. Does reclaim wait for its end, or for what another item does?",
    )?;
    Ok(words)
}

/// The same, of several items.
pub fn nothing_flushes_on_these<A: Allocator + Copy>(
    alloc: A,
    file: &[u8],
    items: &[u8],
) -> Result<Vec<u8, A>, AllocError>
    ensures { IfOk result (λ words. words.items ≡ nothing_flushes_on_these file.now items.now) }
{
    let mut words = Vec::with_capacity(alloc, 181)?;
    put(&mut words, file)?;
    put(&mut words, b": note: nothing on the workqueues of ")?;
    put(&mut words, items)?;
    put(
        &mut words,
        b" declares a flush. Does reclaim wait for their ends, or for what other items do?",
    )?;
    Ok(words)
}

/// The same note, where other items can hang.
pub fn others_can_hang<A: Allocator + Copy>(alloc: A, file: &[u8]) -> Result<Vec<u8, A>, AllocError>
    ensures { IfOk result (λ words. words.items ≡ others_can_hang file.now) }
{
    let mut words = Vec::with_capacity(alloc, 112)?;
    put(&mut words, file)?;
    put(
        &mut words,
        b": note: nothing holds up what is named; other items can hang: ask without a NAME",
    )?;
    Ok(words)
}

/// In words of groups: an item waits for the one that waits next.
pub fn group_waits_for_next<A: Allocator + Copy>(
    alloc: A,
    item: &[u8],
    target: &[u8],
) -> Result<Vec<u8, A>, AllocError>
    ensures { IfOk result (λ words. words.items ≡ group_waits_for_next item.now target.now) }
{
    let mut words = Vec::with_capacity(alloc, 88)?;
    put(&mut words, item)?;
    put(&mut words, b" waits for ")?;
    put(&mut words, target)?;
    put(&mut words, b", which waits")?;
    Ok(words)
}

/// In words of groups: an item waits for itself.
pub fn group_waits_for_itself<A: Allocator + Copy>(
    alloc: A,
    item: &[u8],
) -> Result<Vec<u8, A>, AllocError>
    ensures { IfOk result (λ words. words.items ≡ group_waits_for_itself item.now) }
{
    let mut words = Vec::with_capacity(alloc, 49)?;
    put(&mut words, item)?;
    put(&mut words, b" waits for itself")?;
    Ok(words)
}

/// In words of groups: an item waits for one behind the one that waits next.
pub fn group_waits_for_behind<A: Allocator + Copy>(
    alloc: A,
    item: &[u8],
    target: &[u8],
    next: &[u8],
) -> Result<Vec<u8, A>, AllocError>
    ensures { IfOk result (λ words. words.items ≡ group_waits_for_behind item.now target.now next.now) }
{
    let mut words = Vec::with_capacity(alloc, 145)?;
    put(&mut words, item)?;
    put(&mut words, b" waits for ")?;
    put(&mut words, target)?;
    put(&mut words, b", which is behind ")?;
    put(&mut words, next)?;
    put(&mut words, b": they are `ordered`")?;
    Ok(words)
}

/// In words of groups: an item waits for one behind itself.
pub fn group_waits_for_behind_it<A: Allocator + Copy>(
    alloc: A,
    item: &[u8],
    target: &[u8],
) -> Result<Vec<u8, A>, AllocError>
    ensures { IfOk result (λ words. words.items ≡ group_waits_for_behind_it item.now target.now) }
{
    let mut words = Vec::with_capacity(alloc, 115)?;
    put(&mut words, item)?;
    put(&mut words, b" waits for ")?;
    put(&mut words, target)?;
    put(&mut words, b", which is behind it: they are `ordered`")?;
    Ok(words)
}

/// In words of groups: an item waits for a whole workqueue, on which the next one waits.
pub fn group_waits_for_all<A: Allocator + Copy>(
    alloc: A,
    item: &[u8],
    target: &[u8],
    next: &[u8],
) -> Result<Vec<u8, A>, AllocError>
    ensures { IfOk result (λ words. words.items ≡ group_waits_for_all item.now target.now next.now) }
{
    let mut words = Vec::with_capacity(alloc, 138)?;
    put(&mut words, item)?;
    put(&mut words, b" waits for the workqueue of ")?;
    put(&mut words, target)?;
    put(&mut words, b", where ")?;
    put(&mut words, next)?;
    put(&mut words, b" waits")?;
    Ok(words)
}

/// In words of groups: an item waits for its own whole workqueue.
pub fn group_waits_for_all_of_its_own<A: Allocator + Copy>(
    alloc: A,
    item: &[u8],
) -> Result<Vec<u8, A>, AllocError>
    ensures { IfOk result (λ words. words.items ≡ group_waits_for_all_of_its_own item.now) }
{
    let mut words = Vec::with_capacity(alloc, 56)?;
    put(&mut words, item)?;
    put(&mut words, b" waits for its workqueue")?;
    Ok(words)
}

/// A workqueue is given a rescuer.
pub fn is_given<A: Allocator + Copy>(alloc: A, workqueue: &[u8]) -> Result<Vec<u8, A>, AllocError>
    ensures { IfOk result (λ words. words.items ≡ is_given workqueue.now) }
{
    let mut words = Vec::with_capacity(alloc, 51)?;
    put(&mut words, workqueue)?;
    put(&mut words, b" is given a rescuer")?;
    Ok(words)
}

/// A group moves from one workqueue to another.
pub fn moves<A: Allocator + Copy>(
    alloc: A,
    item: &[u8],
    workqueue: &[u8],
    other: &[u8],
) -> Result<Vec<u8, A>, AllocError>
    ensures { IfOk result (λ words. words.items ≡ moves item.now workqueue.now other.now) }
{
    let mut words = Vec::with_capacity(alloc, 112)?;
    put(&mut words, item)?;
    put(&mut words, b" moves from ")?;
    put(&mut words, workqueue)?;
    put(&mut words, b" to ")?;
    put(&mut words, other)?;
    Ok(words)
}

/// A group of several items: the first of them, and how many more there are.
pub fn with_more<A: Allocator + Copy>(
    alloc: A,
    item: &[u8],
    number: &[u8],
) -> Result<Vec<u8, A>, AllocError>
    ensures { IfOk result (λ words. words.items ≡ with_more item.now number.now) }
{
    let mut words = Vec::with_capacity(alloc, 90)?;
    put(&mut words, item)?;
    put(&mut words, b", with ")?;
    put(&mut words, number)?;
    put(&mut words, b" more of its group,")?;
    Ok(words)
}

/// A workqueue that the assignment doesn't have.
pub fn a_new_one<A: Allocator + Copy>(alloc: A, workqueue: &[u8]) -> Result<Vec<u8, A>, AllocError>
    ensures { IfOk result (λ words. words.items ≡ a_new_one workqueue.now) }
{
    let mut words = Vec::with_capacity(alloc, 43)?;
    put(&mut words, workqueue)?;
    put(&mut words, b", a new one")?;
    Ok(words)
}

/// A workqueue to which a group moves, and which is given a rescuer.
pub fn which_is_given<A: Allocator + Copy>(
    alloc: A,
    workqueue: &[u8],
) -> Result<Vec<u8, A>, AllocError>
    ensures { IfOk result (λ words. words.items ≡ which_is_given workqueue.now) }
{
    let mut words = Vec::with_capacity(alloc, 58)?;
    put(&mut words, workqueue)?;
    put(&mut words, b", which is given a rescuer")?;
    Ok(words)
}

/// Before the waits by which the workqueues hang without a rescuer.
pub const WITHOUT_ONE: &[u8] = b"without one: ";

/// Before the waits by which the workqueues hang without a rescuer, if the first is unsure.
pub const WITHOUT_ONE_IF: &[u8] = b"without one, if this is so: ";

/// Before the waits by which the workqueues hang if a group doesn't move.
pub const IF_IT_STAYED: &[u8] = b"if it stayed: ";

/// Before the waits by which the workqueues hang if a group doesn't move, if the first is unsure.
pub const IF_IT_STAYED_IF: &[u8] = b"if it stayed and this is so: ";

/// Beside the start of a repair by names.
pub fn names_are_too_few<A: Allocator + Copy>(
    alloc: A,
    file: &[u8],
) -> Result<Vec<u8, A>, AllocError>
    ensures { IfOk result (λ words. words.items ≡ names_are_too_few file.now) }
{
    let mut words = Vec::with_capacity(alloc, 112)?;
    put(&mut words, file)?;
    put(
        &mut words,
        b": note: wherever these items move, the workqueues can hang; the run is on these:",
    )?;
    Ok(words)
}

/// A NAME after `repair` is no item.
pub fn unknown_item<A: Allocator + Copy>(
    alloc: A,
    file: &[u8],
    name: &[u8],
) -> Result<Vec<u8, A>, AllocError>
    ensures { IfOk result (λ words. words.items ≡ unknown_item file.now name.now) }
{
    let mut words = Vec::with_capacity(alloc, 120)?;
    put(&mut words, file)?;
    put(&mut words, b": no item `")?;
    put(&mut words, name)?;
    put(&mut words, b"` is declared [refused 8, `wqplan explain 8`]")?;
    Ok(words)
}

/// The item whose name is most like a NAME after `repair`.
pub fn did_you_mean<A: Allocator + Copy>(
    alloc: A,
    file: &[u8],
    name: &[u8],
) -> Result<Vec<u8, A>, AllocError>
    ensures { IfOk result (λ words. words.items ≡ did_you_mean file.now name.now) }
{
    let mut words = Vec::with_capacity(alloc, 88)?;
    put(&mut words, file)?;
    put(&mut words, b": note: did you mean `")?;
    put(&mut words, name)?;
    put(&mut words, b"`?")?;
    Ok(words)
}

/// An item on a workqueue without a rescuer.
pub fn item_on_workqueue<A: Allocator + Copy>(
    alloc: A,
    item: &[u8],
    workqueue: &[u8],
) -> Result<Vec<u8, A>, AllocError>
    ensures { IfOk result (λ words. words.items ≡ item_on_workqueue item.now workqueue.now) }
{
    let mut words = Vec::with_capacity(alloc, 68)?;
    put(&mut words, item)?;
    put(&mut words, b" on ")?;
    put(&mut words, workqueue)?;
    Ok(words)
}

/// The first line of the note beside `safe`.
pub fn nothing_guarantees<A: Allocator + Copy>(
    alloc: A,
    file: &[u8],
    items: &[u8],
) -> Result<Vec<u8, A>, AllocError>
    ensures { IfOk result (λ words. words.items ≡ nothing_guarantees file.now items.now) }
{
    let mut words = Vec::with_capacity(alloc, 129)?;
    put(&mut words, file)?;
    put(
        &mut words,
        b": note: nothing guarantees that these run while memory is short: ",
    )?;
    put(&mut words, items)?;
    Ok(words)
}

/// The second line of the note beside `safe`.
pub fn declare_who_waits<A: Allocator + Copy>(
    alloc: A,
    file: &[u8],
) -> Result<Vec<u8, A>, AllocError>
    ensures { IfOk result (λ words. words.items ≡ declare_who_waits file.now) }
{
    let mut words = Vec::with_capacity(alloc, 147)?;
    put(&mut words, file)?;
    put(
        &mut words,
        b": note: where reclaim waits for one of them, declare who waits: an item of its ",
    )?;
    put(&mut words, b"own, on a `wq` line, that flushes it")?;
    Ok(words)
}

/// Beside `safe` of a declaration with several unsure lines.
pub fn safe_whatever<A: Allocator + Copy>(
    alloc: A,
    file: &[u8],
    all: &[u8],
) -> Result<Vec<u8, A>, AllocError>
    ensures { IfOk result (λ words. words.items ≡ safe_whatever file.now all.now) }
{
    let mut words = Vec::with_capacity(alloc, 118)?;
    put(&mut words, file)?;
    put(&mut words, b": note: safe whatever the ")?;
    put(&mut words, all)?;
    put(&mut words, b" unsure lines turn out to be")?;
    Ok(words)
}

/// Beside `safe` of a declaration with one unsure line.
pub fn safe_whatever_one<A: Allocator + Copy>(
    alloc: A,
    file: &[u8],
) -> Result<Vec<u8, A>, AllocError>
    ensures { IfOk result (λ words. words.items ≡ safe_whatever_one file.now) }
{
    let mut words = Vec::with_capacity(alloc, 87)?;
    put(&mut words, file)?;
    put(
        &mut words,
        b": note: safe whatever the 1 unsure line turns out to be",
    )?;
    Ok(words)
}

/// Beside `unsure 0`.
pub fn hangs_for_sure<A: Allocator + Copy>(alloc: A, file: &[u8]) -> Result<Vec<u8, A>, AllocError>
    ensures { IfOk result (λ words. words.items ≡ hangs_for_sure file.now) }
{
    let mut words = Vec::with_capacity(alloc, 80)?;
    put(&mut words, file)?;
    put(
        &mut words,
        b": note: hangs for sure: no unsure line is needed",
    )?;
    Ok(words)
}

/// Beside an unsure part of several lines.
pub fn arent_decided<A: Allocator + Copy>(
    alloc: A,
    file: &[u8],
    count: &[u8],
) -> Result<Vec<u8, A>, AllocError>
    ensures { IfOk result (λ words. words.items ≡ arent_decided file.now count.now) }
{
    let mut words = Vec::with_capacity(alloc, 171)?;
    put(&mut words, file)?;
    put(&mut words, b": note: ")?;
    put(&mut words, count)?;
    put(
        &mut words,
        b" of these waits aren't decided. Take a line away if it isn't so, or its `?` if ",
    )?;
    put(&mut words, b"it is, and ask again")?;
    Ok(words)
}

/// Beside an unsure part of one line.
pub fn isnt_decided<A: Allocator + Copy>(alloc: A, file: &[u8]) -> Result<Vec<u8, A>, AllocError>
    ensures { IfOk result (λ words. words.items ≡ isnt_decided file.now) }
{
    let mut words = Vec::with_capacity(alloc, 139)?;
    put(&mut words, file)?;
    put(
        &mut words,
        b": note: 1 of these waits isn't decided. Take a line away if it isn't so, or its ",
    )?;
    put(&mut words, b"`?` if it is, and ask again")?;
    Ok(words)
}

/// Unsure lines that `circles` leaves out.
pub fn make_no_difference<A: Allocator + Copy>(
    alloc: A,
    file: &[u8],
    count: &[u8],
    all: &[u8],
    place: &[u8],
    lines: &[u8],
) -> Result<Vec<u8, A>, AllocError>
    ensures { IfOk result (λ words. words.items ≡ make_no_difference file.now count.now all.now place.now
        lines.now) }
{
    let mut words = Vec::with_capacity(alloc, 200)?;
    put(&mut words, file)?;
    put(&mut words, b": note: ")?;
    put(&mut words, count)?;
    put(&mut words, b" of ")?;
    put(&mut words, all)?;
    put(&mut words, b" make no difference ")?;
    put(&mut words, place)?;
    put(&mut words, b": lines ")?;
    put(&mut words, lines)?;
    Ok(words)
}

/// One unsure line that `circles` leaves out.
pub fn makes_no_difference<A: Allocator + Copy>(
    alloc: A,
    file: &[u8],
    all: &[u8],
    place: &[u8],
    line: &[u8],
) -> Result<Vec<u8, A>, AllocError>
    ensures { IfOk result (λ words. words.items ≡ makes_no_difference file.now all.now place.now line.now) }
{
    let mut words = Vec::with_capacity(alloc, 169)?;
    put(&mut words, file)?;
    put(&mut words, b": note: 1 of ")?;
    put(&mut words, all)?;
    put(&mut words, b" makes no difference ")?;
    put(&mut words, place)?;
    put(&mut words, b": line ")?;
    put(&mut words, line)?;
    Ok(words)
}

/// How many unsure lines there are.
pub fn unsure_lines<A: Allocator + Copy>(alloc: A, count: &[u8]) -> Result<Vec<u8, A>, AllocError>
    ensures { IfOk result (λ words. words.items ≡ unsure_lines count.now) }
{
    let mut words = Vec::with_capacity(alloc, 45)?;
    put(&mut words, count)?;
    put(&mut words, b" unsure lines")?;
    Ok(words)
}

/// How many unsure lines there are, if there is one.
pub const UNSURE_LINE: &[u8] = b"1 unsure line";

/// What unsure lines make no difference to, if workqueues are given.
pub const ON_THESE: &[u8] = b"on these workqueues";

/// What unsure lines make no difference to, if no workqueues are given.
pub const TO_A_PLAN: &[u8] = b"to whether there is a plan";

/// The same, where items must go on.
pub const TO_WHAT_IS_NAMED: &[u8] = b"to what is named";

/// Beside a plan whose chain has an unsure flush.
pub fn are_needed<A: Allocator + Copy>(
    alloc: A,
    file: &[u8],
    count: &[u8],
    fewer: &[u8],
) -> Result<Vec<u8, A>, AllocError>
    ensures { IfOk result (λ words. words.items ≡ are_needed file.now count.now fewer.now) }
{
    let mut words = Vec::with_capacity(alloc, 177)?;
    put(&mut words, file)?;
    put(&mut words, b": note: ")?;
    put(&mut words, count)?;
    put(
        &mut words,
        b" workqueues are needed if these are so; without unsure lines ",
    )?;
    put(&mut words, fewer)?;
    put(&mut words, b" are enough:")?;
    Ok(words)
}

/// Beside a plan whose chain has an unsure flush, if one workqueue would be enough without it.
pub fn are_needed_not_one<A: Allocator + Copy>(
    alloc: A,
    file: &[u8],
    count: &[u8],
) -> Result<Vec<u8, A>, AllocError>
    ensures { IfOk result (λ words. words.items ≡ are_needed_not_one file.now count.now) }
{
    let mut words = Vec::with_capacity(alloc, 145)?;
    put(&mut words, file)?;
    put(&mut words, b": note: ")?;
    put(&mut words, count)?;
    put(
        &mut words,
        b" workqueues are needed if these are so; without unsure lines 1 is enough:",
    )?;
    Ok(words)
}
