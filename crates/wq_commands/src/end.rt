//! How a run of the program ends. The status of each end is the program's own convention: 0 for a good answer, and
//! another number for each other kind of answer. Every call takes constant time.
ghost use Rattle.std.specs.Prelude.{◌≡◌};

/// How the program ends, if it met no fault.
#[derive(Clone, Copy, Debug, PartialEq, Eq)]
pub enum End {
    /// The input was understood, and the answer is yes.
    Good,
    /// The input was understood, and the answer is no.
    Bad,
    /// The input was not understood.
    Refused,
}

impl End {
    ghost use Rattle.wq_commands.specs.End.{exit_status};

    /// The status that the process ends with: 0, 1 or 2.
    pub fn status(self) -> u8
        ensures { result ≡ exit_status self }
    {
        match self {
            End::Good => 0,
            End::Bad => 1,
            End::Refused => 2,
        }
    }
}
