//! How the process ends: its exit status, and what it prints if a run has no answer.
//!
//! The statuses are those of docs/FORMAT.md: 0 to 2 as `End` has them, 2 for a wrong command line too, 3 for a fault,
//! and 141 if nobody reads standard output any more. A line that can't be written to standard error is lost, but the
//! status says the same.

ghost use Rattle.std.specs.Prelude.{◌≡◌, ◌≢◌, ◌⊎◌, OnOk, OnErr};
ghost use Rattle.std.specs.IoError.{error_kind};
ghost use Rattle.std.specs.declared.io.ErrorKind.TheVariants.{OutOfMemory as NoMemory};
ghost use Rattle.clap.specs.Words.{kind_of};
ghost use Rattle.clap.specs.declared.error.kind.ErrorKind.{ErrorKind};
ghost use Rattle.wqplan.specs.Status.{exit_status_of, unwritten_status};

use crate::world::{Unwritten, say_unwritten};
use clap::Error;
use clap::error::ErrorKind;
use std::alloc::{AllocError, Global};
use std::io;
use wq_commands::End;
use wq_meter::Fault;
use wq_run::CommandFault;

/// The status if help or the version was printed.
const SHOWN: u8 = 0;

/// The status of a wrong command line.
const MISUSED: u8 = 2;

/// The status of a fault.
const FAULTED: u8 = 3;

/// The status if nobody reads standard output any more: what a shell says of a program that SIGPIPE ended.
const UNREAD: u8 = 141;

/// Prints which fault stopped the run. The status is 3.
fn faulted(rt: &impl Eprint, fault: CommandFault) -> u8
    ensures { result ≡ 3 }
{
    let _ = rt.eprintln(fault.text());
    FAULTED
}

/// The status if standard output couldn't be written for this reason. If nobody reads it any more, nothing is
/// said.
fn unwritten<R: Eprint + AllocGlobal>(rt: &R, why: Unwritten) -> u8
    ensures { result ≡ unwritten_status why }
{
    match why {
        Unwritten::Unread => UNREAD,
        Unwritten::Failed(why) => {
            say_unwritten(rt, why);
            faulted(rt, CommandFault::Common(Fault::Write))
        }
    }
}

/// The status of a command that ran. The reason is given if standard output couldn't be written.
pub(crate) fn answered<R: Eprint + AllocGlobal>(
    rt: &R,
    outcome: Result<End, CommandFault>,
    why: Unwritten,
) -> u8
    ensures { result ≡ exit_status_of why outcome }
{
    match outcome {
        Ok(end) => end.status(),
        Err(CommandFault::Common(Fault::Write)) => unwritten(rt, why),
        Err(CommandFault::Common(Fault::Read)) => faulted(rt, CommandFault::Common(Fault::Read)),
        Err(CommandFault::Common(Fault::Memory)) => {
            faulted(rt, CommandFault::Common(Fault::Memory))
        }
        Err(CommandFault::Thread) => faulted(rt, CommandFault::Thread),
        Err(CommandFault::Tally) => faulted(rt, CommandFault::Tally),
    }
}

/// The status if the words name standard input twice.
pub(crate) fn repeated(rt: &impl Eprint) -> u8
    ensures { result ≡ 2 }
{
    let _ = rt.eprintln("error: `-`, which is standard input, can be only one of the files");
    MISUSED
}

/// The status if the words of the command line couldn't be read.
pub(crate) fn unread(rt: &impl Eprint, error: &io::Error) -> u8
    ensures memory { error_kind error.now ≡ NoMemory → result ≡ 3 }
    ensures mistake { error_kind error.now ≢ NoMemory → result ≡ 2 }
{
    if error.kind() == io::ErrorKind::OutOfMemory {
        return faulted(rt, CommandFault::Common(Fault::Memory));
    }
    let _ = rt.eprintln("error: the arguments can't be read as text");
    MISUSED
}

/// What begins the tip that an option can be passed as a value.
const TIP: &str = "\n  tip: to pass '";

/// The text of a mistake in the words, without that tip: it would lead to a file with the name of the option.
fn mistake(alloc: Global, error: &Error) -> Result<String, AllocError> {
    let text = error.to_string(alloc)?;
    let (before, tip) = text.split_once(TIP).unwrap_or((text.as_str(), ""));
    let (_, behind) = tip.split_once('\n').unwrap_or(("", ""));
    let mut left = String::from_str(alloc, before)?;
    if !before.ends_with('\n') {
        left.push_str("\n")?;
    }
    left.push_str(behind)?;
    Ok(left)
}

/// Prints a mistake in the words.
fn say_mistake<R: Eprint + AllocGlobal>(rt: &R, error: &Error) {
    let alloc: Global = rt.alloc();
    let _ = match mistake(alloc, error) {
        Ok(text) => rt.eprint(text.as_str()),
        Err(AllocError) => rt.eprint(error),
    };
}

/// The status if the words ask for no command. Help or the version is printed, or else the mistake.
pub(crate) fn unasked<R: Print + Eprint + AllocGlobal>(rt: &R, error: &Error) -> u8
    ensures memory { kind_of error.now ≡ ErrorKind.OutOfMemory → result ≡ 3 }
    ensures shown { (kind_of error.now ≡ ErrorKind.DisplayHelp) ⊎ (kind_of error.now ≡ ErrorKind.DisplayVersion)
        → (result ≡ 0) ⊎ ((result ≡ 3) ⊎ (result ≡ 141)) }
    ensures mistake { kind_of error.now ≢ ErrorKind.OutOfMemory → kind_of error.now ≢ ErrorKind.DisplayHelp
        → kind_of error.now ≢ ErrorKind.DisplayVersion → result ≡ 2 }
{
    if error.kind() == ErrorKind::OutOfMemory {
        return faulted(rt, CommandFault::Common(Fault::Memory));
    }
    if error.use_stderr() {
        say_mistake(rt, error);
        return MISUSED;
    }
    shown(rt, &error.print(rt))
}

/// The status after the attempt to print help or the version.
fn shown<R: Eprint + AllocGlobal>(rt: &R, printed: &io::Result<()>) -> u8
    ensures worked { OnOk printed.now (result ≡ 0) }
    ensures failed { OnErr printed.now ((result ≡ 3) ⊎ (result ≡ 141)) }
{
    match printed {
        Ok(()) => SHOWN,
        Err(error) => unwritten(rt, Unwritten::by(Some(error.kind()))),
    }
}
