//! What is answered to a certificate around fixed workqueues.
//!
//! The answers are those of "Planning around workqueues" in docs/FORMAT.md. `code` takes constant time.

ghost use Rattle.std.specs.Prelude.{◌≡◌};
ghost use Rattle.wq_checker.specs.CodesAround.{no_around_code};

use crate::answer::{No, Yes};

/// The certificate shows what it says.
#[derive(Clone, Copy, Debug, PartialEq, Eq)]
pub enum YesAround {
    /// A plan with this many new workqueues, or a circle of this many arcs.
    Plain(Yes),
    /// A flush that leads, in the start, to no rescuer.
    NoRescuer,
}

/// Why a certificate doesn't show what it says.
#[derive(Clone, Copy, Debug, PartialEq, Eq)]
pub enum NoAround {
    /// As without fixed workqueues (50 to 54).
    Plain(No),
    /// The flush doesn't lead, in the start, to no rescuer (55).
    HasRescuer,
}

impl NoAround {
    /// The number of the reason, from 50 to 55.
    pub fn code(&self) -> u32
        ensures { result ≡ no_around_code self.now }
    {
        match self {
            NoAround::Plain(no) => no.code(),
            NoAround::HasRescuer => 55,
        }
    }
}
