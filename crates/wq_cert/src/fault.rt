//! Why a text isn't a certificate.
//!
//! The faults are those of "Refusals of certificates" in docs/FORMAT.md. Each call takes constant time.

ghost use Rattle.std.specs.Prelude.{◌≡◌};
ghost use Rattle.wq_cert.specs.Texts.{cert_refusal};
ghost use Rattle.wq_cert.specs.declared.fault.CertError.TheVariants.{OutOfMemory};

use std::alloc::{AllocError, AllocFailed};
use thiserror::Error;

/// The first fault of a certificate, or out of memory. The order of rows in "Refusals of certificates" in
/// docs/FORMAT.md decides which fault of a line is the first.
#[derive(Clone, Copy, Debug, PartialEq, Eq, Error)]
pub enum CertError {
    /// The line doesn't have the form that comes next, or is too long (40). The line is 0 if the text is too long or
    /// ends too early.
    #[error("line {line}: not what a certificate has here")]
    BadCertLine { line: u32 },
    /// An item is on a workqueue already (41). The line is 0 if an item is on none.
    #[error("line {line}: not every item is on exactly one workqueue")]
    NotAllItems { line: u32 },
    /// Another item of the same group is on an earlier workqueue (42).
    #[error("line {line}: a group on two workqueues")]
    GroupSplit { line: u32 },
    /// A number is out of its range (43).
    #[error("line {line}: a number out of range")]
    NumberOutOfRange { line: u32 },
    /// Memory ran out (20, without a line).
    #[error("out of memory")]
    OutOfMemory,
}

impl CertError {
    /// The number of the fault: 40, 41, 42, 43 or 20.
    pub fn code(self) -> u32
        ensures { result ≡ (cert_refusal self).code }
    {
        match self {
            CertError::BadCertLine { .. } => 40,
            CertError::NotAllItems { .. } => 41,
            CertError::GroupSplit { .. } => 42,
            CertError::NumberOutOfRange { .. } => 43,
            CertError::OutOfMemory => 20,
        }
    }

    /// The line of the fault, from 1, or 0 if no line is meant.
    pub fn line(self) -> u32
        ensures { result ≡ (cert_refusal self).line }
    {
        match self {
            CertError::BadCertLine { line }
            | CertError::NotAllItems { line }
            | CertError::GroupSplit { line }
            | CertError::NumberOutOfRange { line } => line,
            CertError::OutOfMemory => 0,
        }
    }
}

impl From<AllocError> for CertError {
    ghost from_gives = { λ _ e. e ≡ OutOfMemory };

    fn from(_e: AllocError) -> CertError {
        CertError::OutOfMemory
    }
}

impl<T: Drop> From<AllocFailed<T>> for CertError {
    ghost from_gives = { λ _ e. e ≡ OutOfMemory };

    fn from(_e: AllocFailed<T>) -> CertError {
        CertError::OutOfMemory
    }
}
