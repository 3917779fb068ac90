//! The targets of each item, in order of place.
//!
//! They are the waits of "Items and groups" in docs/FORMAT.md. `wq_buckets` sorts the flushes by item, without a
//! comparison, in O(items + flushes) time and memory. The targets of an item are found in constant time.

ghost use Rattle.std.specs.Prelude.{◌≡◌, ◌<◌, length, map, flat_map, IfOk, IfErr};
ghost use Rattle.std.specs.List.{All};
ghost use Rattle.wq_items.specs.declared.flush.Flush.{Flush};
ghost use Rattle.wq_items.specs.Table.{targets_of};
ghost use Rattle.wq_items.specs.Waits.{waits_of};

use crate::flush::Flush;
use crate::target::{ItemId, Target};
use std::alloc::{AllocError, Allocator};
use std::marker::Model;
use wq_buckets::Pieces;

/// A list of targets for each item. Contracts see the list of these lists.
#[derive(Drop)]
pub(crate) struct Waits<A: Allocator> {
    targets: Pieces<Target, A>,
}

impl<A: Allocator> Model for Waits<A> {
    ghost use Rattle.std.specs.Prelude.{List};
    ghost use Rattle.wq_items.specs.declared.target.Target.{Target};

    ghost Value = { List (List Target) };

    ghost view = { λ w. w.targets };
}

/// The item that declares each flush, in order of place.
fn items_flushing<A: Allocator + Copy>(
    alloc: A,
    flushes: &[Flush],
) -> Result<Vec<u16, A>, AllocError>
    ensures items { IfOk result (λ items. items.items ≡ map (λ (f : Flush). f.item) flushes.now) }
    ensures memory { IfErr result (λ _. 0 < length flushes.now) }
{
    let mut items = Vec::with_capacity(alloc, flushes.len())?;
    for flush in flushes {
        items.push_reserved(flush.item.get());
    }
    Ok(items)
}

impl<A: Allocator + Copy> Waits<A> {
    /// Makes the targets of `items` items from their flushes, which are in order of place.
    ///
    /// The only error is out of memory, which can't occur if there is no item.
    pub(crate) fn new(alloc: A, flushes: &[Flush], items: u16) -> Result<Self, AllocError>
        requires within { All (λ (f : Flush). f.item < items) flushes.now }
        requires few { length flushes.now < 4294967296 }
        ensures waits { IfOk result (λ waits. waits ≡ waits_of flushes.now items) }
        ensures memory { IfErr result (λ _. 0 < items) }
    {
        let flushing = items_flushing(alloc, flushes)?;
        let target = |place: u32| flushes[place as usize].target;
        let targets = Pieces::sorted(alloc, flushing.as_slice(), items, &target)?;
        Ok(Waits { targets })
    }

    /// The waits with these lists of targets, one for each item.
    pub(crate) fn of(targets: Pieces<Target, A>) -> Self
        ensures { result ≡ targets }
    {
        Waits { targets }
    }

    /// All targets, item by item.
    pub(crate) fn all(&self) -> &[Target]
        ensures { result.now ≡ flat_map (λ list. list) self.now }
    {
        self.targets.all()
    }

    /// The targets of an item.
    pub(crate) fn get(&self, i: ItemId) -> &[Target]
        requires { i < length self.now }
        ensures { result.now ≡ targets_of self.now i }
    {
        self.targets.get(i.get())
    }
}
