//! How `run` ended when it was carried out, for callers that need only its end. Each call takes constant time.

ghost use Rattle.std.specs.Prelude.{◌≡◌, ◌≢◌, Ok, Err, IfOk};
ghost use Rattle.std.specs.Result.{IsErrAnd};
ghost use Rattle.wq_meter.specs.declared.fault.Fault.TheVariants.{Memory, Read, Write};
ghost use Rattle.wq_meter.specs.declared.stopped.Stopped.TheVariants.{Faulted, Unanswered};
ghost use Rattle.wq_run.specs.declared.fault.CommandFault.TheVariants.{Common, Thread, Tally};
ghost use Rattle.wq_run.specs.declared.fault.RunStop.TheVariants as stop;
ghost use Rattle.wq_run.specs.Fault.{end_or_stop};

use crate::fault::{CommandFault, RunStop};
use wq_commands::End;
use wq_meter::Stopped;

/// The end of `run`, or the fault that stopped it.
pub fn end_of_run(ended: Result<End, Stopped<RunStop>>) -> Result<End, CommandFault>
    ensures is { result ≡ end_or_stop ended }
    ensures end { IfOk result (λ end. ended ≡ Ok end) }
    ensures memory { result ≡ Err (Common Memory) → IsErrAnd ended (λ stopped. stopped ≢ Faulted Write) }
    ensures read { result ≡ Err (Common Read) → IsErrAnd ended (λ stopped. stopped ≢ Faulted Write) }
    ensures no_thread { result ≡ Err Thread → ended ≡ Err (Unanswered stop.Thread) }
    ensures no_tally { result ≡ Err Tally → ended ≡ Err (Unanswered stop.Tally) }
    ensures read_failed { result ≡ Err (Common Read) → ended ≡ Err (Faulted Read) }
    ensures no_read_failed { result ≢ Err (Common Read) → ended ≢ Err (Faulted Read) }
    ensures write_failed { result ≡ Err (Common Write) → ended ≡ Err (Faulted Write) }
    ensures no_write_failed { result ≢ Err (Common Write) → ended ≢ Err (Faulted Write) }
{
    match ended {
        Ok(end) => Ok(end),
        Err(Stopped::Faulted(fault)) => Err(CommandFault::Common(fault)),
        Err(Stopped::Unanswered(stop)) => Err(CommandFault::from(stop)),
    }
}
