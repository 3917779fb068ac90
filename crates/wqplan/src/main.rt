//! `wqplan`: the commands of `wq_commands`, `wq_circles`, `wq_dot`, `wq_run` and `wq_explain`, over the files, the
//! standard streams and the threads of a process.
//!
//! This crate adds the command line, the files and the exit status. What is read and what is answered is defined in
//! those crates. The formats and the statuses are those of docs/FORMAT.md. `main` returns the status as a number and
//! never as an error: an error would give the status 1, which means a bad answer. The running time is that of the
//! command.
#![tactic(auto)]

ghost use Rattle.wqplan.specs.CommandLine.{HasFewHelpers, spelled};

mod command_line;
mod commands;
mod ending;
mod help;
pub mod laws;
mod performing;
mod statuses;
mod world;

use command_line::Request;
use std::io::{self, IsTerminal, Write};
use std::process::ExitCode;
use std::random::RandomSource;
use std::rt::Files;
use std::sync::Wait;
use std::thread::Threads;
use world::{NamedReader, Noting, Process, STDIN};
use wq_commands::End;
use wq_meter::Metered;
use wq_run::CommandFault;

/// Carries out the command that is asked for, over the files and standard input of the process, and over these writers.
fn perform<
    'a,
    R: Files + Input + Eprint + AllocGlobal + RandomSource + Threads + Wait + Sync,
    W: Write,
    E: Write,
>(
    rt: &'a R,
    request: Request<'a>,
    above: bool,
    writer: &mut Metered<W>,
    error: &mut Metered<E>,
) -> Result<End, CommandFault>
    requires few_helpers { HasFewHelpers (spelled request) }
{
    let mut input = Metered::new(NamedReader::new(rt, STDIN, rt.reader()));
    let world = Process { rt };
    let alloc = rt.alloc();
    if above {
        return performing::perform_above(&world, rt, alloc, request, &mut input, writer, error);
    }
    performing::perform(&world, rt, alloc, request, &mut input, writer, error)
}

fn main(rt: HostRuntime) -> ExitCode {
    let words = match command_line::words(&rt) {
        Ok(words) => words,
        Err(error) => return ExitCode::from(ending::unread(&rt, &error)),
    };
    let status = match command_line::parse(rt.alloc(), &words) {
        Ok(request) if request.repeats_input() => ending::repeated(&rt),
        Ok(request) => {
            // Standard output has no buffer. So what was written has left the process, and a write that the system
            // refuses is noticed.
            let mut writer = Metered::new(Noting::new(io::writer(&rt)));
            let mut error = Metered::new(rt.stderr());
            let above = rt.stdout().is_terminal() && rt.stderr().is_terminal();
            let outcome = perform(&rt, request, above, &mut writer, &mut error);
            ending::answered(&rt, outcome, writer.into_inner().unwritten())
        }
        Err(error) => ending::unasked(&rt, &error),
    };
    ExitCode::from(status)
}
