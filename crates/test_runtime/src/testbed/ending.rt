//! How a program ends: what it prints, its status, and what it says if there is no answer.

use std::io;
use wq_commands::{Fault, Metered, write_text};

/// Prints an answer. Returns its status.
pub fn print_answer<R: Print>(rt: &R, out: &str, status: u8) -> Result<u8, Fault> {
    write_text(&mut Metered::new(io::writer(rt)), out.as_bytes())?;
    Ok(status)
}

/// Says which fault stopped the program. Returns the status.
fn faulted(rt: &impl Eprint, fault: Fault) -> u8 {
    let _ = rt.eprintln(fault.text());
    3
}

/// Says that the command line is wrong, and what it should be. Returns the status.
pub fn misused(rt: &impl Eprint, usage: &str) -> u8 {
    let _ = rt.eprintln(usage);
    2
}

/// Says why the command line can't be read. Returns the status.
pub fn unread(rt: &impl Eprint, error: io::Error, usage: &str) -> u8 {
    if error.kind() == io::ErrorKind::OutOfMemory {
        faulted(rt, Fault::Memory)
    } else {
        misused(rt, usage)
    }
}

/// The status of a program that ends like this. A fault is also printed.
pub fn ended(rt: &impl Eprint, status: Result<u8, Fault>) -> u8 {
    match status {
        Ok(status) => status,
        Err(fault) => faulted(rt, fault),
    }
}
