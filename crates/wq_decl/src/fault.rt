//! Why a line isn't a directive.
//!
//! The faults are those of the second pass in "Refusals" of docs/FORMAT.md. Each call takes constant time.

ghost use Rattle.std.specs.Prelude.{◌≡◌};
ghost use Rattle.wq_decl.specs.Reading.{decl_refusal};

use thiserror::Error;

/// The first fault of a line, by the order of rows in the table of refusals in docs/FORMAT.md.
#[derive(Clone, Copy, Debug, PartialEq, Eq, Error)]
pub enum DeclError {
    /// A byte before the comment that is neither TAB nor a printable ASCII character (3).
    #[error("line {line}: a byte that a declaration can't hold")]
    BadByte { line: u32 },
    /// The first word isn't a directive (4).
    #[error("line {line}: no such directive")]
    UnknownWord { line: u32 },
    /// There are fewer words than the directive needs (5).
    #[error("line {line}: a name is missing")]
    MissingName { line: u32 },
    /// There are more words than the directive takes (12).
    #[error("line {line}: a word too many")]
    ExtraWord { line: u32 },
    /// A word after the first isn't a name (6).
    #[error("line {line}: a word that isn't a name")]
    BadName { line: u32 },
}

impl DeclError {
    /// The number of the fault: 3, 4, 5, 12 or 6.
    pub fn code(self) -> u32
        ensures { result ≡ (decl_refusal self).code }
    {
        match self {
            DeclError::BadByte { .. } => 3,
            DeclError::UnknownWord { .. } => 4,
            DeclError::MissingName { .. } => 5,
            DeclError::ExtraWord { .. } => 12,
            DeclError::BadName { .. } => 6,
        }
    }

    /// The line of the fault, from 1.
    pub fn line(self) -> u32
        ensures { result ≡ (decl_refusal self).line }
    {
        match self {
            DeclError::BadByte { line }
            | DeclError::UnknownWord { line }
            | DeclError::MissingName { line }
            | DeclError::ExtraWord { line }
            | DeclError::BadName { line } => line,
        }
    }
}
