//! Why a call of a book is refused, and why no book is made.
//!
//! The numbers are those of "Histories" in docs/FORMAT.md. Every call takes constant time.

ghost use Rattle.std.specs.Prelude.{◌≡◌, Some};
ghost use Rattle.wq_history.specs.Book.{book_code};
ghost use Rattle.wq_history.specs.Errors.{call_code, call_error, IsOfBook};
ghost use Rattle.wq_history.specs.declared.fault.BookError.TheVariants.{OutOfMemory};

use std::alloc::AllocError;
use thiserror::Error;

/// Why a named call is refused, or no book is made: the first of these causes that holds.
#[derive(Clone, Copy, Debug, PartialEq, Eq, Error)]
pub enum BookError {
    /// Fewer rows are free than the event needs (60).
    #[error("the history is full")]
    HistoryFull,
    /// The book is closed: nothing is queued any more (61).
    #[error("the book is closed")]
    Closed,
    /// The running item declares no such flush: of the item, or of its whole workqueue (62).
    #[error("the item declares no such flush")]
    Undeclared,
    /// The running item has made as many waits as it declares flushes, of both kinds (63).
    #[error("the item has made all its waits")]
    TooManyWaits,
    /// There is no such lane, or it can't make this step (64).
    #[error("the workqueue can't do this")]
    WrongLane,
    /// There is no such item (66).
    #[error("no such item")]
    NoItem,
    /// More than 16,777,216 rows (68).
    #[error("more rows than a book may have")]
    TooManyRows,
    /// Memory ran out (20).
    #[error("out of memory")]
    OutOfMemory,
}

impl BookError {
    /// The number of the refusal: 20, 60 to 64, 66 or 68.
    pub fn code(self) -> u32
        ensures { result ≡ book_code self }
    {
        match self {
            BookError::OutOfMemory => 20,
            BookError::HistoryFull => 60,
            BookError::Closed => 61,
            BookError::Undeclared => 62,
            BookError::TooManyWaits => 63,
            BookError::WrongLane => 64,
            BookError::NoItem => 66,
            BookError::TooManyRows => 68,
        }
    }

    /// The same refusal as one of a named call. (`told` and `told_lane` hand the ask back instead of 65.)
    pub(crate) fn of(e: CallError) -> BookError
        requires { IsOfBook e }
        ensures { call_error result ≡ Some e }
    {
        match e {
            CallError::HistoryFull => BookError::HistoryFull,
            CallError::Closed => BookError::Closed,
            CallError::Undeclared => BookError::Undeclared,
            CallError::TooManyWaits => BookError::TooManyWaits,
            CallError::WrongLane => BookError::WrongLane,
            CallError::NoItem => BookError::NoItem,
            CallError::NotAsked => unreachable!(),
        }
    }
}

impl From<AllocError> for BookError {
    ghost from_gives = { λ _ e. e ≡ OutOfMemory };

    fn from(_e: AllocError) -> BookError {
        BookError::OutOfMemory
    }
}

/// Why a call is refused, of a book or of a runtime: the first cause that holds.
#[derive(Clone, Copy, Debug, PartialEq, Eq, Error)]
pub enum CallError {
    /// Fewer rows are free than the call needs, or in a runtime its seat has counted 33,554,432 rows or more (60).
    #[error("the history is full")]
    HistoryFull,
    /// The book, or the runtime, is closed: nothing is queued any more (61).
    #[error("the runtime is closed")]
    Closed,
    /// The running item declares no such flush: of the item, or of its whole workqueue (62).
    #[error("the item declares no such flush")]
    Undeclared,
    /// The running item has made as many waits as it declares flushes, of both kinds (63).
    #[error("the item has made all its waits")]
    TooManyWaits,
    /// There is no such workqueue, the item belongs to another, or the workqueue can't make this step (64).
    #[error("the workqueue can't do this")]
    WrongLane,
    /// No ask about the item, or about the workqueue, is waiting (65). A runtime
    /// hands in only the mark of the call's own ask.
    #[error("no caller waits for the item, or for the workqueue")]
    NotAsked,
    /// No such item (66).
    #[error("no such item")]
    NoItem,
}

impl CallError {
    /// The number of the refusal: 60 to 66.
    pub fn code(self) -> u32
        ensures { result ≡ call_code self }
    {
        match self {
            CallError::HistoryFull => 60,
            CallError::Closed => 61,
            CallError::Undeclared => 62,
            CallError::TooManyWaits => 63,
            CallError::WrongLane => 64,
            CallError::NotAsked => 65,
            CallError::NoItem => 66,
        }
    }
}
