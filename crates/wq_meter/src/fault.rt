//! What can go wrong outside the program: memory, a read or a write. The texts are the program's own. Each call takes
//! constant time.
ghost use Rattle.std.specs.Prelude.{◌≡◌, Some};
ghost use Rattle.wq_meter.specs.declared.fault.Fault.TheVariants.{Memory};
ghost use Rattle.wq_meter.specs.Fault.{fault_text};

use std::alloc::{AllocError, AllocFailed};
use std::error::Error;
use std::fmt;

/// What stopped a run.
#[derive(Clone, Copy, Debug, PartialEq, Eq)]
pub enum Fault {
    /// Memory ran out.
    Memory,
    /// A read failed.
    Read,
    /// A write failed, or took no byte of several.
    Write,
}

impl Fault {
    /// The fault in words: `fault memory`, `fault read` or `fault write`.
    pub fn text(self) -> &'static str
        ensures { result.now ≡ fault_text self }
    {
        match self {
            Fault::Memory => "fault memory",
            Fault::Read => "fault read",
            Fault::Write => "fault write",
        }
    }
}

impl fmt::Display for Fault {
    ghost output = { λ fault. Some (fault_text fault) };

    fn fmt<W: fmt::Write>(&self, f: &mut fmt::Formatter<W>) -> fmt::Result {
        f.write_str(self.text())
    }
}

impl Error for Fault {}

impl From<AllocError> for Fault {
    ghost from_gives = { λ _ fault. fault ≡ Memory };

    fn from(_error: AllocError) -> Fault {
        Fault::Memory
    }
}

impl<T: Drop> From<AllocFailed<T>> for Fault {
    ghost from_gives = { λ _ fault. fault ≡ Memory };

    fn from(_error: AllocFailed<T>) -> Fault {
        Fault::Memory
    }
}
