//! Items that are named on the command line: those that must go on.
//!
//! It takes time and memory linear in the number of names and of items.

ghost use Rattle.std.specs.Prelude.{◌≡◌, ◌<◌, IfOk, IfSome, length, map, option_map, filter};
ghost use Rattle.std.specs.List.{All, range_with_len};
ghost use Rattle.wq_cert.specs.Forms.{items_of};
ghost use Rattle.wq_cert.specs.Reading.{stands_in};
ghost use Rattle.wq_commands.specs.Answer.{PrintsRefusal};
ghost use Rattle.wq_commands.specs.Named.{items_with_names, unknown_item};

use crate::end::End;
use crate::refusal::refuse;
use std::alloc::{AllocError, Allocator};
use wq_items::{ItemId, ItemTable};

/// The number of the refusal where a name is that of no item.
const UNKNOWN_ITEM: u32 = 8;

/// The items with these names, in the order of the names. Nothing if one of them is the name of no item.
fn items_in_turn<A: Allocator + Copy>(
    alloc: A,
    table: &ItemTable<'_, A>,
    names: &[&str],
) -> Result<Option<Vec<ItemId, A>>, AllocError>
    ensures items { IfOk result (λ found. option_map (λ items. items.items) found
        ≡ items_of table.now.names (map (λ n. n.now) names.now)) }
    ensures within { IfOk result (λ found. IfSome found (λ items.
        All (λ i. i < length table.now.names) items.items)) }
{
    let mut items = Vec::with_capacity(alloc, names.len())?;
    for name in names {
        let Some(item) = table.find(name.as_bytes()) else {
            return Ok(None);
        };
        items.push(item)?;
    }
    Ok(Some(items))
}

/// These items, each once, the lowest number first, where there are `count` items.
fn each_once<A: Allocator + Copy>(
    alloc: A,
    count: u16,
    items: &[ItemId],
) -> Result<Vec<ItemId, A>, AllocError>
    requires { All (λ i. i < count) items.now }
    ensures { IfOk result (λ list. list.items ≡ filter (stands_in items.now) (range_with_len 0 count)) }
{
    let mut are_there = vec![in alloc; false; usize::from(count)]?;
    for item in items {
        are_there[usize::from(item.get())] = true;
    }
    let mut list = Vec::with_capacity(alloc, items.len())?;
    for i in 0..count {
        if are_there[usize::from(i)] {
            list.push(ItemId::new(i))?;
        }
    }
    Ok(list)
}

/// The items with these names, each once, in the order in which they are declared: the order of the names, and how
/// often each comes, makes no difference. Nothing if one of them is the name of no item.
///
/// The only error is out of memory (20).
pub fn named_items<A: Allocator + Copy>(
    alloc: A,
    table: &ItemTable<'_, A>,
    names: &[&str],
) -> Result<Option<Vec<ItemId, A>>, AllocError>
    ensures items { IfOk result (λ found. option_map (λ items. items.items) found
        ≡ items_with_names table.now.names (map (λ n. n.now) names.now)) }
    ensures within { IfOk result (λ found. IfSome found (λ items.
        All (λ i. i < length table.now.names) items.items)) }
{
    match items_in_turn(alloc, table, names)? {
        Some(items) => Ok(Some(each_once(alloc, table.len(), items.as_slice())?)),
        None => Ok(None),
    }
}

/// What is printed where a name is that of no item. The only error is out of memory (20).
pub fn refuse_name<A: Allocator + Copy>(alloc: A) -> Result<(End, Vec<u8, A>), AllocError>
    ensures { IfOk result (λ printed. PrintsRefusal unknown_item printed.0 printed.1.items) }
{
    refuse(alloc, UNKNOWN_ITEM, 0)
}
