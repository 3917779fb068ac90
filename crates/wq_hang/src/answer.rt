//! The shortest hang of workqueues, if they can hang; and the shortest by which an item is held up that must go on.
//!
//! Nothing is computed here.

use crate::hop::Hop;
use std::alloc::Allocator;
use wq_core::Step;
use wq_items::ItemId;

/// Whether workqueues are safe, and else how they hang soonest.
#[derive(Drop)]
pub enum Answer<A: Allocator> {
    /// They are: no run ends stuck.
    Safe,
    /// They aren't: the waits that hold one another up, and a shortest run that ends stuck, in which these are made.
    Hang(Vec<Hop, A>, Vec<Step, A>),
}

/// Whether one of the items that must go on can be held up, and else how that happens soonest.
#[derive(Drop)]
pub enum Held<A: Allocator> {
    /// None can: no run ends stuck for them.
    Safe,
    /// This one can: by these waits, and a shortest run that ends stuck for them, in which these are made. It waits
    /// itself, or is behind the first that waits; without a wait its own lane is bare.
    HeldUp(ItemId, Vec<Hop, A>, Vec<Step, A>),
}
