//! The answer to a declaration and an assignment: they are judged, and then a load is run. This takes the time of both.

use crate::loads::load::Load;
use crate::loads::running::run;
use crate::testbed::{Bed, SEED, SettingTexts, refuse_text};
use std::alloc::{AllocError, Global};
use std::sync::Wait;
use std::thread::Threads;
use std::time::Clock;
use wq_cert::{CertError, read_assignment};
use wq_commands::{Stop, read_declaration};
use wq_groups::Declaration;

/// Answers for what is declared, under the assignment in a text. Returns the status.
fn answer_declared<R: Threads + Wait + Clock + Sync>(
    rt: &R,
    alloc: Global,
    rows: u32,
    helpers: u8,
    declared: &Declaration<'_, Global>,
    assigned: &[u8],
    load: Load,
    out: &mut String,
) -> Result<u8, AllocError> {
    let Declaration { table, groups } = declared;
    match read_assignment(alloc, assigned, table, groups) {
        Ok(assignment) => {
            let bed = Bed {
                declared,
                assignment: &assignment,
                rows,
                helpers,
            };
            run(rt, alloc, &bed, load, out)
        }
        Err(CertError::OutOfMemory) => Err(AllocError),
        Err(fault) => refuse_text(out, fault.code(), fault.line()),
    }
}

/// Runs a load on a runtime of these texts, with this many rows and helpers, and adds its results; or adds the refusal
/// of the first text that has to be refused. Returns the status.
pub fn answer<R: Threads + Wait + Clock + Sync>(
    rt: &R,
    alloc: Global,
    rows: u32,
    helpers: u8,
    texts: &SettingTexts,
    load: Load,
    out: &mut String,
) -> Result<u8, AllocError> {
    match read_declaration(alloc, SEED, &texts.declared) {
        Ok(declared) => answer_declared(
            rt,
            alloc,
            rows,
            helpers,
            &declared,
            &texts.assigned,
            load,
            out,
        ),
        Err(Stop::Refused { code, line }) => refuse_text(out, code, line),
        Err(Stop::OutOfMemory) => Err(AllocError),
    }
}
