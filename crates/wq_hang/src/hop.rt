//! A wait of a walk.
//!
//! An item waits for an item on the lane of the next one, and that one doesn't go on either. Nothing is computed here.

use wq_items::{ItemId, Target};

/// An item that waits, what it waits for, and the item that waits next.
#[derive(Clone, Copy, Debug, PartialEq, Eq)]
pub struct Hop {
    /// The item that waits.
    pub item: ItemId,
    /// The flush in which it waits.
    pub flush: Target,
    /// The item that waits next, on the lane of the target. If no item waits there, as on a bare lane, the target.
    pub next: ItemId,
}
