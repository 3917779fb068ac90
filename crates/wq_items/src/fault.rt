//! Why directives don't make a table.
//!
//! The faults are those of the pass over the items in the table of refusals in docs/FORMAT.md. The rules that they
//! break are in "Items and groups" and "Limits" there. Each call takes constant time.

ghost use Rattle.std.specs.Prelude.{◌≡◌};
ghost use Rattle.wq_items.specs.Building.{item_refusal};
ghost use Rattle.wq_items.specs.declared.fault.ItemError.TheVariants.{OutOfMemory};

use std::alloc::{AllocError, AllocFailed};
use thiserror::Error;

/// The first fault of the directives, or out of memory. The order of rows in the table of refusals in docs/FORMAT.md
/// decides which fault of a line is the first.
#[derive(Clone, Copy, Debug, PartialEq, Eq, Error)]
pub enum ItemError {
    /// The item is already declared (7).
    #[error("line {line}: the item is already declared")]
    ItemTwice { line: u32 },
    /// A name on a line that isn't an `item` line is declared by no earlier line (8).
    #[error("line {line}: no earlier line declares this item")]
    UnknownItem { line: u32 },
    /// There are 4,096 items already (9).
    #[error("line {line}: too many items")]
    TooManyItems { line: u32 },
    /// With the targets of this line there are more than 16,384 flushes (10).
    #[error("line {line}: too many flushes")]
    TooManyFlushes { line: u32 },
    /// Memory ran out (20, without a line).
    #[error("out of memory")]
    OutOfMemory,
}

impl ItemError {
    /// The number of the fault: 7, 8, 9, 10 or 20.
    pub fn code(self) -> u32
        ensures { result ≡ (item_refusal self).code }
    {
        match self {
            ItemError::ItemTwice { .. } => 7,
            ItemError::UnknownItem { .. } => 8,
            ItemError::TooManyItems { .. } => 9,
            ItemError::TooManyFlushes { .. } => 10,
            ItemError::OutOfMemory => 20,
        }
    }

    /// The line of the fault, from 1, or 0 if no line is meant.
    pub fn line(self) -> u32
        ensures { result ≡ (item_refusal self).line }
    {
        match self {
            ItemError::ItemTwice { line }
            | ItemError::UnknownItem { line }
            | ItemError::TooManyItems { line }
            | ItemError::TooManyFlushes { line } => line,
            ItemError::OutOfMemory => 0,
        }
    }
}

impl From<AllocError> for ItemError {
    ghost from_gives = { λ _ e. e ≡ OutOfMemory };

    fn from(_e: AllocError) -> ItemError {
        ItemError::OutOfMemory
    }
}

impl<T: Drop> From<AllocFailed<T>> for ItemError {
    ghost from_gives = { λ _ e. e ≡ OutOfMemory };

    fn from(_e: AllocFailed<T>) -> ItemError {
        ItemError::OutOfMemory
    }
}
