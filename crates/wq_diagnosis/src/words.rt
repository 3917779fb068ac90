//! Words for items and workqueues.
//!
//! A call takes the time and the memory of the words.

ghost use Rattle.std.specs.Prelude.{◌≡◌, ◌<◌, [], IfOk, length, map, slice_index_or};
ghost use Rattle.wq_cert.specs.PlanText.{name_of};
ghost use Rattle.wq_diagnosis.specs.Words.{item_words, name_words, workqueue_of, workqueue_words};

use std::alloc::{AllocError, Allocator};
use wq_core::Assigned;
use wq_groups::{Declaration, LaneId};
use wq_items::{ItemId, ItemTable};
use wq_names::{messages, name_at};

/// The name of a workqueue as it is written after its number, if it has a name.
pub(crate) fn name_words<A: Allocator + Copy>(
    alloc: A,
    name: &[u8],
) -> Result<Vec<u8, A>, AllocError>
    ensures { IfOk result (λ words. words.items ≡ name_words name.now) }
{
    if name.is_empty() {
        return Ok(Vec::new(alloc));
    }
    messages::its_name(alloc, name)
}

/// A workqueue with its name, if it has one.
pub fn workqueue_words<A: Allocator + Copy>(
    alloc: A,
    names: &[&[u8]],
    q: LaneId,
) -> Result<Vec<u8, A>, AllocError>
    ensures { IfOk result (λ words. words.items ≡ workqueue_words (map (λ n. n.now) names.now) q) }
{
    let number = q.get().to_string(alloc)?;
    let called = name_words(alloc, name_at(names, q.get()))?;
    messages::a_workqueue(alloc, number.as_bytes(), &called)
}

/// The workqueue of an item.
pub fn workqueue_of<A: Allocator + Copy>(assigned: &Assigned<'_, '_, A>, item: ItemId) -> LaneId
    requires item { item < length assigned.now.declared.partition.group_of }
    ensures { result ≡ workqueue_of assigned.now.declared assigned.now.workqueues item }
{
    let group = assigned.groups().of(item);
    assigned.workqueues().assignment().lane(group)
}

/// The name of an item; empty if there is no such item.
fn item_name<'a, A: Allocator + Copy>(table: &ItemTable<'a, A>, item: ItemId) -> &'a [u8]
    ensures { result.now ≡ name_of table.now.names item }
{
    if item.get() < table.len() {
        table.name(item)
    } else {
        &[]
    }
}

/// An item.
pub fn item_words<A: Allocator + Copy>(
    alloc: A,
    declared: &Declaration<'_, A>,
    item: ItemId,
) -> Result<Vec<u8, A>, AllocError>
    ensures { IfOk result (λ words. words.items ≡ item_words declared.now item) }
{
    messages::an_item(alloc, item_name(&declared.table, item))
}
