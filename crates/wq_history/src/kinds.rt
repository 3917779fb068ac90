//! Calls of which the kind is known where they are made: a type for each kind of `Call`.
//!
//! A `Call` is answered by looking at its kind. All that such a call leads to is compiled for its kind alone: what can
//! be refused, the answer, what is counted, and who is woken. So no answer is handed on in memory, and a round of a
//! runtime takes less than half of the instructions. Nothing else is computed here.

ghost use Rattle.wq_history.specs.declared.call.Call.TheVariants.{Queue, Cancel, Ask, Told, CancelSync, Start, Wait};
ghost use Rattle.wq_history.specs.declared.call.Call.TheVariants.{Over, Finish, Close, Drain};

use crate::asking::Subject;
use crate::book::Book;
use crate::call::{Call, Flush, Reply};
use crate::fault::CallError;
use std::alloc::Allocator;
use wq_core::Context;
use wq_items::ItemId;

/// What a book answers as a call.
pub trait AsCall<A: Allocator>: Copy {
    ghost use Rattle.wq_history.specs.declared.call.Call.{Call};
    ghost use Rattle.wq_history.specs.Calls.{Answers};
    ghost use Rattle.std.specs.Prelude.{◌≡◌};

    // the call that is meant
    ghost meant: { Self → Call };

    /// The call.
    fn call(&self) -> Call
        ensures { result ≡ meant self.now };

    /// Has it answered by a book, as `Book::answer` does.
    fn answer_by(self, book: &mut Book<A>) -> Result<Reply, CallError>
        ensures { Answers book.old (meant self) result book.new };
}

/// Queues the item on its lane (`queue_work`).
#[derive(Clone, Copy, Debug, PartialEq, Eq)]
pub struct QueueCall {
    /// The item.
    pub item: ItemId,
}

impl<A: Allocator> AsCall<A> for QueueCall {
    ghost meant = { λ c. Queue c.item };

    fn call(&self) -> Call {
        Call::Queue(self.item)
    }

    fn answer_by(self, book: &mut Book<A>) -> Result<Reply, CallError> {
        book.answer_queue(self.item)
    }
}

/// Removes the pending entry of the item (`cancel_work`).
#[derive(Clone, Copy, Debug, PartialEq, Eq)]
pub struct CancelCall {
    /// The item.
    pub item: ItemId,
}

impl<A: Allocator> AsCall<A> for CancelCall {
    ghost meant = { λ c. Cancel c.item };

    fn call(&self) -> Call {
        Call::Cancel(self.item)
    }

    fn answer_by(self, book: &mut Book<A>) -> Result<Reply, CallError> {
        book.answer_cancel(self.item)
    }
}

/// Asks whether anything is unfinished there, to wait for it (`flush_work`, `flush_workqueue`).
#[derive(Clone, Copy, Debug, PartialEq, Eq)]
pub struct AskCall {
    /// The item or the lane.
    pub subject: Subject,
}

impl<A: Allocator> AsCall<A> for AskCall {
    ghost meant = { λ c. Ask c.subject };

    fn call(&self) -> Call {
        Call::Ask(self.subject)
    }

    fn answer_by(self, book: &mut Book<A>) -> Result<Reply, CallError> {
        book.answer_ask(self.subject)
    }
}

/// Looks whether such an ask, which has this mark, may be told that its wait is over.
#[derive(Clone, Copy, Debug, PartialEq, Eq)]
pub struct ToldCall {
    /// The item or the lane.
    pub subject: Subject,
    /// The mark of its ask.
    pub mark: u32,
}

impl<A: Allocator> AsCall<A> for ToldCall {
    ghost meant = { λ c. Told c.subject c.mark };

    fn call(&self) -> Call {
        Call::Told(self.subject, self.mark)
    }

    fn answer_by(self, book: &mut Book<A>) -> Result<Reply, CallError> {
        book.answer_told(self.subject, self.mark)
    }
}

/// Asks about the item, and then removes its pending entry (`cancel_work_sync`).
#[derive(Clone, Copy, Debug, PartialEq, Eq)]
pub struct CancelSyncCall {
    /// The item.
    pub item: ItemId,
}

impl<A: Allocator> AsCall<A> for CancelSyncCall {
    ghost meant = { λ c. CancelSync c.item };

    fn call(&self) -> Call {
        Call::CancelSync(self.item)
    }

    fn answer_by(self, book: &mut Book<A>) -> Result<Reply, CallError> {
        book.answer_cancel_sync(self.item)
    }
}

/// Starts, in this context, what comes next on its lane.
#[derive(Clone, Copy, Debug, PartialEq, Eq)]
pub struct StartCall {
    /// The context.
    pub context: Context,
}

impl<A: Allocator> AsCall<A> for StartCall {
    ghost meant = { λ c. Start c.context };

    fn call(&self) -> Call {
        Call::Start(self.context)
    }

    fn answer_by(self, book: &mut Book<A>) -> Result<Reply, CallError> {
        book.answer_start(self.context)
    }
}

/// Makes what the context runs begin to wait.
#[derive(Clone, Copy, Debug, PartialEq, Eq)]
pub struct WaitCall {
    /// The context.
    pub context: Context,
    /// What it waits for.
    pub flush: Flush,
}

impl<A: Allocator> AsCall<A> for WaitCall {
    ghost meant = { λ c. Wait c.context c.flush };

    fn call(&self) -> Call {
        Call::Wait(self.context, self.flush)
    }

    fn answer_by(self, book: &mut Book<A>) -> Result<Reply, CallError> {
        book.answer_wait(self.context, self.flush)
    }
}

/// Looks whether such a wait of what the context runs is over.
#[derive(Clone, Copy, Debug, PartialEq, Eq)]
pub struct OverCall {
    /// The context.
    pub context: Context,
    /// What it waits for.
    pub flush: Flush,
}

impl<A: Allocator> AsCall<A> for OverCall {
    ghost meant = { λ c. Over c.context c.flush };

    fn call(&self) -> Call {
        Call::Over(self.context, self.flush)
    }

    fn answer_by(self, book: &mut Book<A>) -> Result<Reply, CallError> {
        book.answer_over(self.context, self.flush)
    }
}

/// Finishes what the context runs, an entry of this item.
#[derive(Clone, Copy, Debug, PartialEq, Eq)]
pub struct FinishCall {
    /// The context.
    pub context: Context,
    /// The item.
    pub item: ItemId,
}

impl<A: Allocator> AsCall<A> for FinishCall {
    ghost meant = { λ c. Finish c.context c.item };

    fn call(&self) -> Call {
        Call::Finish(self.context, self.item)
    }

    fn answer_by(self, book: &mut Book<A>) -> Result<Reply, CallError> {
        book.answer_finish(self.context, self.item)
    }
}

/// Closes the book (`destroy_workqueue`, its beginning).
#[derive(Clone, Copy, Debug, PartialEq, Eq)]
pub struct CloseCall;

impl<A: Allocator> AsCall<A> for CloseCall {
    ghost meant = { λ c. Close };

    fn call(&self) -> Call {
        Call::Close
    }

    fn answer_by(self, book: &mut Book<A>) -> Result<Reply, CallError> {
        book.answer_close()
    }
}

/// Looks whether nothing is unfinished (`destroy_workqueue`, its end).
#[derive(Clone, Copy, Debug, PartialEq, Eq)]
pub struct DrainCall;

impl<A: Allocator> AsCall<A> for DrainCall {
    ghost meant = { λ c. Drain };

    fn call(&self) -> Call {
        Call::Drain
    }

    fn answer_by(self, book: &mut Book<A>) -> Result<Reply, CallError> {
        book.answer_drain()
    }
}
