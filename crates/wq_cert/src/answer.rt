//! What the text of an answer says.
//!
//! An answer is a plan or a circle, as in "Certificates" in docs/FORMAT.md.

use std::alloc::Allocator;
use wq_core::Step;
use wq_groups::Assignment;
use wq_items::ItemId;

/// What the text of a plan or of a circle says. A checker decides whether it is true.
#[derive(Drop)]
pub enum CertAnswer<A: Allocator> {
    /// An assignment, and a chain that shows that no fewer workqueues are enough.
    Plan {
        /// Which workqueue serves each group: at most 4,096 workqueues, some of which may be empty.
        assignment: Assignment<A>,
        /// How many groups the chain is said to have, at most 4,096.
        length: u32,
        /// The arcs of the chain, each as an item and its target: one fewer than groups, or none if there is no group.
        arcs: Vec<(ItemId, ItemId), A>,
    },
    /// A circle in which groups wait.
    Circle {
        /// The arcs of the circle, each as an item and its target: from 1 to 4,096.
        arcs: Vec<(ItemId, ItemId), A>,
        /// The steps of a run, if there is one.
        steps: Option<Vec<Step, A>>,
    },
}
