//! The number of each item's pending entry.
//!
//! The entries are on the lanes. Here the entry of an item is found without a look at its lane. Each call takes
//! constant time, except for `new`, which takes time and memory in the number of items.

ghost use Rattle.std.specs.Prelude.{◌≡◌, ◌<◌, length, replicate, slice_index_or, slice_set, Some, None, IfOk, OnErr};

use std::alloc::{AllocError, Allocator};
use std::marker::Model;
use wq_items::ItemId;

/// The numbers of the items' pending entries; none if no entry of the item is pending.
#[derive(Drop)]
pub(crate) struct PendingNumbers<A: Allocator> {
    numbers: Vec<Option<u32>, A>,
}

impl<A: Allocator> Model for PendingNumbers<A> {
    ghost use Rattle.std.specs.Prelude.{ℕ, List, Option};

    ghost Value = { List (Option ℕ) };

    ghost view = { λ p. p.numbers.items };
}

impl<A: Allocator> PendingNumbers<A> {
    /// Numbers for this many items, none of which has a pending entry. The only error is out of memory (20), which
    /// can't occur if there is no item.
    pub(crate) fn new(alloc: A, items: u16) -> Result<Self, AllocError>
        ensures numbers { IfOk result (λ p. p ≡ replicate items None) }
        ensures memory { OnErr result (0 < items) }
    {
        let mut numbers = Vec::with_capacity(alloc, usize::from(items))?;
        numbers.resize(usize::from(items), None)?;
        Ok(PendingNumbers { numbers })
    }

    /// The number of an item's pending entry; none if no entry is pending, or there is no such item.
    pub(crate) fn of(&self, item: ItemId) -> Option<u32>
        ensures { result ≡ slice_index_or self.now item None }
    {
        *self.numbers.get(usize::from(item.get()))?
    }

    /// Notes that an entry of an item is now pending, with this number.
    pub(crate) fn note(&mut self, item: ItemId, number: u32)
        requires { item < length self.old }
        ensures { self.new ≡ slice_set self.old item (Some number) }
    {
        self.numbers[usize::from(item.get())] = Some(number);
    }

    /// Notes that no entry of an item is pending any more.
    pub(crate) fn forget(&mut self, item: ItemId)
        requires { item < length self.old }
        ensures { self.new ≡ slice_set self.old item None }
    {
        self.numbers[usize::from(item.get())] = None;
    }
}
