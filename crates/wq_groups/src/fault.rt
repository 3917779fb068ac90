//! Why directives don't make groups.
//!
//! The fault is that of the last pass in "Refusals" in docs/FORMAT.md. Each call takes constant time.

ghost use Rattle.std.specs.Prelude.{◌≡◌};
ghost use Rattle.wq_groups.specs.Grouping.{group_refusal};
ghost use Rattle.wq_groups.specs.declared.fault.GroupError.TheVariants.{OutOfMemory};

use std::alloc::{AllocError, AllocFailed};
use thiserror::Error;

/// The first fault of the `ordered` lines, or out of memory.
#[derive(Clone, Copy, Debug, PartialEq, Eq, Error)]
pub enum GroupError {
    /// A name is already on this or an earlier `ordered` line (11).
    #[error("line {line}: the item is already in a group")]
    GroupedTwice { line: u32 },
    /// Memory ran out (20, without a line).
    #[error("out of memory")]
    OutOfMemory,
}

impl GroupError {
    /// The number of the fault: 11 or 20.
    pub fn code(self) -> u32
        ensures { result ≡ (group_refusal self).code }
    {
        match self {
            GroupError::GroupedTwice { .. } => 11,
            GroupError::OutOfMemory => 20,
        }
    }

    /// The line of the fault, from 1, or 0 if no line is meant.
    pub fn line(self) -> u32
        ensures { result ≡ (group_refusal self).line }
    {
        match self {
            GroupError::GroupedTwice { line } => line,
            GroupError::OutOfMemory => 0,
        }
    }
}

impl From<AllocError> for GroupError {
    ghost from_gives = { λ _ e. e ≡ OutOfMemory };

    fn from(_e: AllocError) -> GroupError {
        GroupError::OutOfMemory
    }
}

impl<T: Drop> From<AllocFailed<T>> for GroupError {
    ghost from_gives = { λ _ e. e ≡ OutOfMemory };

    fn from(_e: AllocFailed<T>) -> GroupError {
        GroupError::OutOfMemory
    }
}
