//! The items of each group, in declaration order ("Items and groups" in docs/FORMAT.md).
//!
//! `wq_buckets` sorts the items by group, without a comparison, in O(items + groups) time and memory. The items of a
//! group are found in constant time.

ghost use Rattle.std.specs.Prelude.{◌≡◌, ◌<◌, ◌≤◌, length, map, slice_index_or, IfOk, IfErr, []};
ghost use Rattle.std.specs.List.{All, range_with_len};
ghost use Rattle.wq_items.specs.Table.{items_at};

use std::alloc::{AllocError, Allocator};
use std::marker::Model;
use wq_buckets::Pieces;
use wq_items::ItemId;

/// A list of items for each group. Contracts see the list of these lists.
#[derive(Drop)]
pub(crate) struct Members<A: Allocator> {
    items: Pieces<ItemId, A>,
}

impl<A: Allocator> Model for Members<A> {
    ghost use Rattle.std.specs.Prelude.{ℕ, List};

    ghost Value = { List (List ℕ) };

    ghost view = { λ m. m.items };
}

impl<A: Allocator + Copy> Members<A> {
    /// Makes the lists of `groups` groups, where `group_of` has the group of each item.
    ///
    /// The only error is out of memory, which can't occur if there is no group.
    pub(crate) fn new(alloc: A, group_of: &[u16], groups: u16) -> Result<Self, AllocError>
        requires within { All (λ g. g < groups) group_of.now }
        requires few { length group_of.now ≤ 4096 }
        ensures members { IfOk result (λ members. members ≡ map (items_at group_of.now) (range_with_len 0 groups)) }
        ensures memory { IfErr result (λ _. 0 < groups) }
    {
        let item = |place: u32| ItemId::new(place as u16);
        let items = Pieces::sorted(alloc, group_of, groups, &item)?;
        Ok(Members { items })
    }

    /// How many groups there are.
    pub(crate) fn len(&self) -> usize
        ensures { result ≡ length self.now }
    {
        self.items.len()
    }

    /// The items of a group.
    pub(crate) fn get(&self, group: u16) -> &[ItemId]
        requires { group < length self.now }
        ensures { result.now ≡ slice_index_or self.now group [] }
    {
        self.items.get(group)
    }
}
