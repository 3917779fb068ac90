//! Why a command didn't end.

ghost use Rattle.std.specs.Prelude.{◌≡◌};
ghost use Rattle.wq_meter.specs.declared.stopped.Stopped.TheVariants.{Faulted};

use crate::fault::Fault;

/// Why a command didn't end.
#[derive(Clone, Copy, Debug, PartialEq, Eq, Drop)]
pub enum Stopped<S> {
    /// A device or memory failed.
    Faulted(Fault),
    /// The command has no answer.
    Unanswered(S),
}

impl<S> From<Fault> for Stopped<S> {
    ghost from_gives = { λ fault stopped. stopped ≡ Faulted fault };

    fn from(fault: Fault) -> Stopped<S> {
        Stopped::Faulted(fault)
    }
}
