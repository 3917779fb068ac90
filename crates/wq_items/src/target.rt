//! An item by its number, and the target of a declared flush.
//!
//! The numbers of items and the places of flushes are those of "Items and groups" in docs/FORMAT.md. An item stands for
//! a `struct work_struct`. Each call takes constant time.

ghost use Rattle.std.specs.Prelude.{◌≡◌, ℕ};

use std::marker::Model;

/// The number of an item, from 0 in order of declaration.
#[derive(Clone, Copy, Debug, PartialEq, Eq)]
pub struct ItemId(u16);

impl Model for ItemId {
    ghost Value = { ℕ };

    ghost view = { λ i. i.0 };

    ghost inverse = { λ n. record { 0 = n } };
}

impl ItemId {
    /// The item with this number.
    pub fn new(number: u16) -> Self
        ensures { result ≡ number }
    {
        ItemId(number)
    }

    /// The number of the item.
    pub fn get(self) -> u16
        ensures { result ≡ self }
    {
        self.0
    }
}

impl Default for ItemId {
    ghost is_default = { λ i. i ≡ 0 };

    fn default() -> Self {
        ItemId(0)
    }
}

/// What is flushed, and whether that is sure.
#[derive(Clone, Copy)]
pub(crate) struct Kind {
    /// Whether a whole workqueue is flushed rather than one item.
    pub(crate) whole: bool,
    /// Whether it is undecided that the flush happens.
    pub(crate) unsure: bool,
}

/// The target of a declared flush: the item that is flushed, and how many flushes are declared before this one.
#[derive(Clone, Copy, Debug, Default, PartialEq, Eq)]
pub struct Target {
    pub item: ItemId,
    /// Whether the whole workqueue of the item is flushed.
    pub whole: bool,
    /// Whether it is undecided that the flush happens.
    pub unsure: bool,
    /// How many flushes are declared before this one, in the order of the text.
    pub place: u32,
}
