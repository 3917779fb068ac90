//! Why bytes aren't a legal history.
//!
//! The numbers are those of "Histories" in docs/FORMAT.md. Every call takes constant time.

ghost use Rattle.std.specs.Prelude.{◌≡◌};
ghost use Rattle.wq_history.specs.Judging.{row_code};

use thiserror::Error;

/// What is wrong with a row.
#[derive(Clone, Copy, Debug, PartialEq, Eq, Error)]
pub enum RowFault {
    /// The bytes are fewer than 12, or hold no row (75).
    #[error("not a row")]
    BadRow,
    /// The row may not follow those before it (76).
    #[error("the row isn't legal here")]
    NotLegal,
    /// Memory ran out, before any row (20).
    #[error("out of memory")]
    OutOfMemory,
}

impl RowFault {
    /// The number of the fault: 20, 75 or 76.
    pub fn code(self) -> u32
        ensures { result ≡ row_code self }
    {
        match self {
            RowFault::OutOfMemory => 20,
            RowFault::BadRow => 75,
            RowFault::NotLegal => 76,
        }
    }
}

/// The lowest row that is at fault, and why.
#[derive(Clone, Copy, Debug, PartialEq, Eq, Error)]
#[error("row {at}: {why}")]
pub struct RowError {
    /// The place of the row, from 1; 0 if memory ran out.
    pub at: u32,
    /// What is wrong with it.
    pub why: RowFault,
}
