//! A call, and its reply.
//!
//! The calls are those of "The calls of a book" in docs/RUNTIME.md, each with all that it names. Nothing is computed
//! here.

use crate::asking::Subject;
use wq_core::Context;
use wq_items::ItemId;
use wq_rows::Row;

/// What an execution waits for: an item, or the whole lane of that item.
#[derive(Clone, Copy, Debug, PartialEq, Eq)]
pub struct Flush {
    /// The item.
    pub target: ItemId,
    /// Whether it waits for the whole lane of the item.
    pub whole: bool,
}

/// A call of a book.
#[derive(Clone, Copy, Debug, PartialEq, Eq)]
pub enum Call {
    /// Queues the item on its lane (`queue_work`).
    Queue(ItemId),
    /// Removes the pending entry of the item (`cancel_work`).
    Cancel(ItemId),
    /// Asks whether anything is unfinished there, to wait for it (`flush_work`, `flush_workqueue`).
    Ask(Subject),
    /// Looks whether such an ask, which has this mark, may be told that its wait is over.
    Told(Subject, u32),
    /// Asks about the item, and then removes its pending entry, with nothing between the two (`cancel_work_sync`).
    CancelSync(ItemId),
    /// Starts, in this context, the first pending entry of its lane whose item doesn't run.
    Start(Context),
    /// Makes what the context runs begin to wait (`flush_work`, `flush_workqueue` in a work function).
    Wait(Context, Flush),
    /// Looks whether such a wait of what the context runs is over.
    Over(Context, Flush),
    /// Finishes what the context runs, an entry of this item.
    Finish(Context, ItemId),
    /// Closes the book: nothing is queued from now on (`destroy_workqueue`, its beginning).
    Close,
    /// Looks whether the book is closed, and nothing is unfinished (`destroy_workqueue`, its end).
    Drain,
}

/// What is replied to a call that isn't refused.
#[derive(Clone, Copy, Debug, PartialEq, Eq)]
pub enum Reply {
    /// This row was written.
    Wrote(Row),
    /// These two rows were written, with none between them: the ask, and the cancellation.
    WroteTwo(Row, Row),
    /// It is done, and there is no row for it: the book is closed; a closed book has nothing unfinished; or the context
    /// has nothing to start and never will have.
    Done,
    /// Not yet. Nothing is changed. The caller sleeps, and looks again when it is woken.
    NotYet,
}
