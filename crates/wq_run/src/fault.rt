//! What can go wrong outside the program: what stops any command, and what stops only `run`. The texts are the
//! program's own. Every call takes constant time.

ghost use Rattle.std.specs.Prelude.{◌≡◌, Some};
ghost use Rattle.wq_run.specs.declared.fault.CommandFault.TheVariants.{Common};
ghost use Rattle.wq_run.specs.declared.fault.RunStop.TheVariants.{OutOfMemory};
ghost use Rattle.wq_run.specs.Fault.{command_fault_text, fault_of_stop, stop_of_run};

use std::alloc::AllocError;
use std::error::Error;
use std::fmt;
use wq_commands::Fault;
use wq_rescuer::RunWhy;

/// What stopped a command.
#[derive(Clone, Copy, Debug, PartialEq, Eq)]
pub enum CommandFault {
    /// What may stop any command: memory, a read or a write.
    Common(Fault),
    /// A thread couldn't be made.
    Thread,
    /// The runtime couldn't be closed with counts that agree, or a caller was refused. No input is known that leads to
    /// it.
    Tally,
}

impl CommandFault {
    /// The fault in words: `fault memory`, `fault read`, `fault write`, `fault thread` or `fault tally`.
    pub fn text(self) -> &'static str
        ensures { result.now ≡ command_fault_text self }
    {
        match self {
            CommandFault::Common(fault) => fault.text(),
            CommandFault::Thread => "fault thread",
            CommandFault::Tally => "fault tally",
        }
    }
}

impl fmt::Display for CommandFault {
    ghost output = { λ fault. Some (command_fault_text fault) };

    fn fmt<W: fmt::Write>(&self, f: &mut fmt::Formatter<W>) -> fmt::Result {
        f.write_str(self.text())
    }
}

impl Error for CommandFault {}

impl From<Fault> for CommandFault {
    ghost from_gives = { λ fault stopped. stopped ≡ Common fault };

    fn from(fault: Fault) -> CommandFault {
        CommandFault::Common(fault)
    }
}

/// Why `run` has no answer, if the text isn't refused.
#[derive(Clone, Copy, Debug, PartialEq, Eq)]
pub enum RunStop {
    /// Memory ran out.
    OutOfMemory,
    /// A thread couldn't be made.
    Thread,
    /// The runtime couldn't be closed with counts that agree, or had too few seats or bodies, or a caller was refused.
    /// No input is known that leads to it.
    Tally,
}

impl From<AllocError> for RunStop {
    ghost from_gives = { λ _ stop. stop ≡ OutOfMemory };

    fn from(_error: AllocError) -> RunStop {
        RunStop::OutOfMemory
    }
}

impl From<RunWhy> for RunStop {
    ghost from_gives = { λ why stop. stop ≡ stop_of_run why };

    /// Why there is no answer if not everything was run. Each rescuer and each helper is given a body, and there are
    /// seats for all of them on 256 workqueues and for two callers, so `BodiesDiffer` and `TooManySeats` never occur.
    fn from(why: RunWhy) -> RunStop {
        match why {
            RunWhy::OutOfMemory => RunStop::OutOfMemory,
            RunWhy::NoThread => RunStop::Thread,
            RunWhy::TooManySeats | RunWhy::BodiesDiffer => RunStop::Tally,
        }
    }
}

impl From<RunStop> for CommandFault {
    ghost from_gives = { λ stop fault. fault ≡ fault_of_stop stop };

    fn from(stop: RunStop) -> CommandFault {
        match stop {
            RunStop::OutOfMemory => CommandFault::Common(Fault::Memory),
            RunStop::Thread => CommandFault::Thread,
            RunStop::Tally => CommandFault::Tally,
        }
    }
}
