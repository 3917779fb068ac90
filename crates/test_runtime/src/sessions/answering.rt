//! The answer to a declaration and an assignment: they are judged, and then what is asked is done with them. A call
//! takes the time of both.

use crate::sessions::requests::TaskText;
use crate::testbed::{Bed, SEED, SettingTexts, refuse_text};
use std::alloc::{AllocError, Global};
use std::sync::Wait;
use std::thread::Threads;
use std::time::Clock;
use wq_cert::{CertError, read_assignment};
use wq_commands::{Stop, read_declaration};
use wq_groups::Declaration;

/// Does what is asked with what is declared, under the assignment in a text. Returns the status.
fn answer_declared<R: Threads + Wait + Clock + Sync>(
    rt: &R,
    alloc: Global,
    rows: u32,
    helpers: u8,
    declared: &Declaration<'_, Global>,
    assigned: &[u8],
    request: &TaskText<'_>,
    out: &mut String,
) -> Result<u8, AllocError> {
    let Declaration { table, groups } = declared;
    match read_assignment(alloc, assigned, table, groups) {
        Ok(assignment) => {
            let bed = Bed {
                declared,
                assignment: &assignment,
                rows,
                helpers,
            };
            let status = request.perform(rt, alloc, &bed, out);
            // Written as a call, so that the proof has one step for it.
            drop(assignment);
            status
        }
        Err(CertError::OutOfMemory) => Err(AllocError),
        Err(fault) => refuse_text(out, fault.code(), fault.line()),
    }
}

/// Does what is asked with what these texts say, with this many rows and helpers, or refuses the first text that has to
/// be refused. Returns the status.
pub fn answer<R: Threads + Wait + Clock + Sync>(
    rt: &R,
    alloc: Global,
    rows: u32,
    helpers: u8,
    texts: &SettingTexts,
    request: &TaskText<'_>,
    out: &mut String,
) -> Result<u8, AllocError> {
    match read_declaration(alloc, SEED, &texts.declared) {
        Ok(declared) => {
            let status = answer_declared(
                rt,
                alloc,
                rows,
                helpers,
                &declared,
                &texts.assigned,
                request,
                out,
            );
            drop(declared);
            status
        }
        Err(Stop::Refused { code, line }) => refuse_text(out, code, line),
        Err(Stop::OutOfMemory) => Err(AllocError),
    }
}
