//! What the text of an answer around fixed workqueues says.
//!
//! It is what "Planning around workqueues" in docs/FORMAT.md calls a certificate. Nothing is computed here.

use std::alloc::Allocator;
use wq_core::Step;
use wq_groups::{Assignment, LaneId};
use wq_items::ItemId;

/// What the text of a plan, of a circle or of a flush to no rescuer says. A checker finds out whether it is true.
#[derive(Drop)]
pub enum AroundAnswer<A: Allocator> {
    /// New workqueues behind the fixed ones, and what shows that they are safe and the fewest.
    Plan {
        /// Which workqueue serves each group: the fixed ones and the new ones.
        assignment: Assignment<A>,
        /// Workqueues, in an order in which each waits only for those before it. Some may be missing or come again.
        order: Vec<LaneId, A>,
        /// How many workqueues of the start the chain has, at most 4,096.
        length: u32,
        /// The arcs of the chain, each as an item and a target of it: one fewer than workqueues, or none.
        arcs: Vec<(ItemId, ItemId), A>,
    },
    /// A circle in which workqueues of the start wait.
    Circle {
        /// The arcs of the circle, each as an item and a target of it: from 1 to 4,096.
        arcs: Vec<(ItemId, ItemId), A>,
        /// The steps of a run, where there is one.
        steps: Option<Vec<Step, A>>,
    },
    /// A flush that leads, in the start, to no rescuer.
    NoRescuer {
        /// The item and the target of the flush.
        arc: (ItemId, ItemId),
        /// The steps of a run, where there is one.
        steps: Option<Vec<Step, A>>,
    },
}
