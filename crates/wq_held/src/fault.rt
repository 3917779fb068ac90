//! Why no runtime is made, why no seat is made, and why a runtime isn't closed.
//!
//! The numbers are those of "Runtimes" in docs/RUNTIME.md. Every call takes constant time.

ghost use Rattle.std.specs.Prelude.{◌≡◌};
ghost use Rattle.wq_held.specs.Errors.{new_code, seat_code, close_code};
ghost use Rattle.wq_held.specs.declared.fault.NewError.TheVariants.{OutOfMemory as NewOutOfMemory};
ghost use Rattle.wq_held.specs.declared.fault.SeatError.TheVariants.{OutOfMemory};

use std::alloc::AllocError;
use thiserror::Error;

/// Why no runtime is made: the first cause that holds.
#[derive(Clone, Copy, Debug, PartialEq, Eq, Error)]
pub enum NewError {
    /// More than 256 workqueues (69).
    #[error("more workqueues than a runtime may have")]
    TooManyLanes,
    /// More than 16,777,216 rows (68).
    #[error("more rows than a history may have")]
    TooManyRows,
    /// More than 8 helpers for each workqueue (74).
    #[error("more helpers than a workqueue may have")]
    TooManyHelpers,
    /// The assignment isn't safe: some run ends stuck (67).
    #[error("the assignment can deadlock")]
    NotSafe,
    /// Memory ran out (20).
    #[error("out of memory")]
    OutOfMemory,
}

impl NewError {
    /// The number of the refusal: 20, 67, 68, 69 or 74.
    pub fn code(self) -> u32
        ensures { result ≡ new_code self }
    {
        match self {
            NewError::OutOfMemory => 20,
            NewError::NotSafe => 67,
            NewError::TooManyRows => 68,
            NewError::TooManyLanes => 69,
            NewError::TooManyHelpers => 74,
        }
    }
}

impl From<AllocError> for NewError {
    ghost from_gives = { λ _ e. e ≡ NewOutOfMemory };

    fn from(_e: AllocError) -> NewError {
        NewError::OutOfMemory
    }
}

/// Why no seat is made.
#[derive(Clone, Copy, Debug, PartialEq, Eq, Error)]
pub enum SeatError {
    /// The runtime has made 65,535 seats (70).
    #[error("more seats than a runtime may make")]
    TooManySeats,
    /// Memory ran out (20).
    #[error("out of memory")]
    OutOfMemory,
}

impl SeatError {
    /// The number of the refusal: 20 or 70.
    pub fn code(self) -> u32
        ensures { result ≡ seat_code self }
    {
        match self {
            SeatError::OutOfMemory => 20,
            SeatError::TooManySeats => 70,
        }
    }
}

impl From<AllocError> for SeatError {
    ghost from_gives = { λ _ e. e ≡ OutOfMemory };

    fn from(_e: AllocError) -> SeatError {
        SeatError::OutOfMemory
    }
}

/// Why a runtime can't be closed yet: the first cause that holds.
#[derive(Clone, Copy, Debug, PartialEq, Eq, Error)]
pub enum CloseWhy {
    /// An entry is pending or running, or a caller waits (71).
    #[error("work is unfinished")]
    NotIdle,
    /// Not as many seats were handed in as were made (72).
    #[error("seats are missing")]
    SeatsMissing,
}

impl CloseWhy {
    /// The number of the refusal: 71 or 72.
    pub fn code(self) -> u32
        ensures { result ≡ close_code self }
    {
        match self {
            CloseWhy::NotIdle => 71,
            CloseWhy::SeatsMissing => 72,
        }
    }
}
