//! An arc of a wait graph.
//!
//! An arc stands for a declared flush: `flush_work` of the target in the function of the item.

use wq_items::ItemId;

/// A declared flush, with the vertex that its target belongs to.
#[derive(Clone, Copy, Debug, PartialEq, Eq)]
pub struct WaitArc {
    /// The item that declares the flush.
    pub src: ItemId,
    /// The item that is flushed.
    pub dst: ItemId,
    /// The vertex of `dst`.
    pub head: u16,
    /// The number of the flush among all declared flushes, from 0, by line and then by place in the line.
    pub place: u32,
}
