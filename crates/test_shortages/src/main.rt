//! `test_shortages`: everything that takes memory, with each of its requests for memory refused in turn; and each
//! command with each call of its readers and writers failing in turn.
//!
//! It is a program of the tests, and never installed. The commands are carried out as the program `wqplan` carries them
//! out, with what it says on standard error, over readers and writers of the tests.
//!
//! A line is printed for each case of `test_cases`, for each command on the largest declaration of examples/, for
//! `explain`, for a plan that is too large to be run, for the calls of a runtime, and for rescuers and callers in
//! threads, and without numbers one for `run_cmd`, which has ample memory. It says how many requests for memory there
//! are. It says how many of the runs in which one of them was refused ended with out of memory (`run` also without a
//! thread) and with nothing written, said or done; how many were answered, though nothing was said of it; and how many
//! went on as with enough memory. And it says the same of the runs in which all requests from one on were refused.
//!
//! Another line is printed for each case, and for `explain`. It says how many calls of the readers, of the writer of
//! the answer and of the teller there are, each of which moves one byte. It says how many runs were answered as they
//! should over devices that move a few bytes a call, and how many ended as they should where one call fails: after a
//! read with nothing written or said, after a write with what was written before it, and after a tell with the whole
//! answer and what was said before it.
//!
//! If a run ends in another way a line says `WRONG`, and the status is 1. This takes as long as all the runs together.
#![tactic(auto)]

mod asked;
mod calls;
mod closing;
mod commands;
mod crew;
mod devices;
mod diagnosing;
mod explaining;
mod failing;
mod largest;
mod memory;
mod running;
mod runtime;
mod trial;

use commands::{put_cases, put_runs};
use diagnosing::put_sayings;
use explaining::put_explaining;
use largest::put_all_largest;
use running::{put_run_cmd, put_too_many};
use runtime::put_runtime;
use std::io;
use std::process::ExitCode;
use std::sync::Wait;
use std::thread::Threads;

/// Tries the commands. Gives whether all runs ended as they should.
fn put_commands<R: Print + AllocGlobal + Threads + Wait + Sync>(rt: &R) -> io::Result<bool> {
    let cases = put_cases(rt)?;
    let runs = put_runs(rt)?;
    let too_many = put_too_many(rt)?;
    let run_cmd = put_run_cmd(rt)?;
    let largest = put_all_largest(rt)?;
    let explaining = put_explaining(rt)?;
    Ok(cases && runs && too_many && run_cmd && largest && explaining)
}

/// Tries everything. Gives whether all runs ended as they should.
fn put_all<R: Print + AllocGlobal + Threads + Wait + Sync>(rt: &R) -> io::Result<bool> {
    let commands = put_commands(rt)?;
    let sayings = put_sayings(rt)?;
    let runtime = put_runtime(rt)?;
    Ok(commands && sayings && runtime)
}

fn main(rt: HostRuntime) -> ExitCode {
    ExitCode::from(match put_all(&rt) {
        Ok(true) => 0,
        Ok(false) => 1,
        Err(_) => 3,
    })
}
