//! Which items may move: the named ones, or all if no name is given.
//!
//! Finding them takes time linear in the number of names, or of items.

ghost use Rattle.std.specs.Prelude.{◌≡◌, ◌<◌, length, map, option_map, IfOk};
ghost use Rattle.std.specs.List.{range_with_len};
ghost use Rattle.wq_cert.specs.Forms.{items_of};
ghost use Rattle.wq_repair_command.specs.Movers.{movers};

use std::alloc::{AllocError, Allocator};
use wq_items::{ItemId, ItemTable};

/// All items of a table.
fn all_items<A: Allocator + Copy>(
    alloc: A,
    table: &ItemTable<'_, A>,
) -> Result<Vec<ItemId, A>, AllocError>
    ensures { IfOk result (λ items. items.items ≡ range_with_len 0 (length table.now.names)) }
{
    let mut items = Vec::with_capacity(alloc, usize::from(table.len()))?;
    for item in 0..table.len() {
        items.push(ItemId::new(item))?;
    }
    Ok(items)
}

/// The items with these names. `None` if one of the names is no item's.
fn named_items<A: Allocator + Copy>(
    alloc: A,
    table: &ItemTable<'_, A>,
    names: &[&str],
) -> Result<Option<Vec<ItemId, A>>, AllocError>
    ensures { IfOk result (λ found. option_map (λ items. items.items) found
        ≡ items_of table.now.names (map (λ n. n.now) names.now)) }
{
    let mut items = Vec::with_capacity(alloc, names.len())?;
    for name in names {
        let Some(item) = table.find(name.as_bytes()) else {
            return Ok(None);
        };
        items.push(item)?;
    }
    Ok(Some(items))
}

/// The items that may move: the ones with these names, or all if there is no name. `None` if one of the names is no
/// item's.
///
/// The only error is out of memory (20).
pub fn items_that_may_move<A: Allocator + Copy>(
    alloc: A,
    table: &ItemTable<'_, A>,
    names: &[&str],
) -> Result<Option<Vec<ItemId, A>>, AllocError>
    ensures { IfOk result (λ found. option_map (λ items. items.items) found
        ≡ movers table.now.names (map (λ n. n.now) names.now)) }
{
    if names.is_empty() {
        return Ok(Some(all_items(alloc, table)?));
    }
    named_items(alloc, table, names)
}
