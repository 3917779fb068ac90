//! The command `run`: a declaration is planned, and its plan is run by a rescuer thread for each workqueue, and by
//! helper threads, if they are asked for.
//!
//! What the program relies on: if a plan was run, the bytes written are the tallies of the history that was closed,
//! which agree with what all rescuers, helpers and callers together counted, and the faults that rescuers and helpers
//! counted. The bytes are exactly those that the definition `report_text` makes of these numbers. The function of this
//! name makes them from a closed runtime and from what all threads left.
//!
//! This crate is separate from the other commands, whose proofs know nothing of threads. The command is that of "The
//! command `run`" in docs/FORMAT.md. The command takes the time of planning, of the executions and of writing the
//! answer.
#![tactic(auto)]

mod fault;
pub mod laws;
mod outcome;
mod report;
mod run;
mod running;
mod saying;
mod serving;

pub use fault::{CommandFault, RunStop};
pub use outcome::end_of_run;
pub use report::report_text;
pub use run::{RunCommand, carry_out_run, run_cmd};
