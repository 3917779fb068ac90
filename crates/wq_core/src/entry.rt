//! What is on a lane: queued entries, and the one that is running.
//!
//! Nothing is computed here.

use wq_items::ItemId;

/// An accepted queueing of an item, by its number.
#[derive(Clone, Copy, Debug, PartialEq, Eq)]
pub struct Entry {
    /// How many queueings were accepted before it, on all lanes.
    pub number: u32,
    /// The item that was queued.
    pub item: ItemId,
}

/// What a running entry waits for.
#[derive(Clone, Copy, Debug, PartialEq, Eq)]
pub struct Waiting {
    /// The item.
    pub target: ItemId,
    /// Whether it waits for the whole lane of the item.
    pub whole: bool,
    /// The number that the next queueing would have got when the wait began. Entries with lower numbers are waited for.
    pub mark: u32,
}

/// An entry that is running.
#[derive(Clone, Copy, Debug, PartialEq, Eq)]
pub struct Running {
    /// The entry.
    pub entry: Entry,
    /// How many waits it has made.
    pub made: u32,
    /// What it waits for, while it waits.
    pub waiting: Option<Waiting>,
}
