//! Laws about readings: what one decision of an unsure flush changes, and how many workqueues a reading needs.
//!
//! A reading is a declaration once each unsure flush is decided ("Unsure lines" in docs/FORMAT.md). No code runs here:
//! the clauses of the functions are the laws.
#![tactic(auto)]

pub mod decisions;
pub mod plans;
