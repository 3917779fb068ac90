//! The cases of the commands. Trying them takes as long as all the runs together.

use crate::asked::Wanted;
use crate::failing::put_failing;
use crate::memory::put_memory;
use std::io;
use std::sync::Wait;
use std::thread::Threads;
use test_cases::{Case, cases, run_cases};

/// Tries a command with each request for memory refused, and over devices that move
/// little, or fail. Gives whether all runs ended as they should.
pub(crate) fn put_asked<R: Print + AllocGlobal + Threads + Wait + Sync>(
    rt: &R,
    name: &str,
    asked: Wanted<'_, '_>,
) -> io::Result<bool> {
    let memory = put_memory(rt, name, asked)?;
    let failing = put_failing(rt, name, asked)?;
    Ok(memory && failing)
}

/// Tries each case of a table. Gives whether all runs ended as they should.
fn put_table<R: Print + AllocGlobal + Threads + Wait + Sync>(
    rt: &R,
    table: &[Case],
) -> io::Result<bool> {
    let mut is_right = true;
    for case in table {
        is_right &= put_asked(rt, case.name, Wanted::of(case))?;
    }
    Ok(is_right)
}

/// Tries each case of the commands that take no threads. Gives whether all runs ended as they should.
pub(crate) fn put_cases<R: Print + AllocGlobal + Threads + Wait + Sync>(
    rt: &R,
) -> io::Result<bool> {
    let mut is_right = true;
    for table in cases() {
        is_right &= put_table(rt, table)?;
    }
    Ok(is_right)
}

/// Tries each case of `run`. Gives whether all runs ended as they should.
pub(crate) fn put_runs<R: Print + AllocGlobal + Threads + Wait + Sync>(rt: &R) -> io::Result<bool> {
    let mut is_right = true;
    for case in run_cases() {
        is_right &= put_asked(rt, case.name, Wanted::of_run(case))?;
    }
    Ok(is_right)
}
