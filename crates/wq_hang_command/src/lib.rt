//! The command `hang`: the shortest run that ends stuck, if there is one.
//!
//! What the program relies on: the run that is printed and the waits that are said come from one value: a walk of
//! waits, with its run. The rule is that of "The command `hang`" in docs/FORMAT.md.
#![tactic(auto)]

mod hang;
mod hanging;
mod hold;
mod holding;
pub mod laws;
mod saying;
mod telling;

pub use hang::HangCommand;
pub use hanging::Hanging;
pub use hold::HoldCommand;
pub use holding::Holding;
