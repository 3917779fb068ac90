//! The command `repair`: workqueues made safe, with no change that could be left out, or a proof that no change helps.
//!
//! What the program relies on: what is printed is the text of the workqueues that `wq_repair` finds, and is read back
//! as them; if there are none, it is the circle or the run that comes with that answer. The rule is that of "The
//! command `repair`" in docs/FORMAT.md. The command takes the time of reading the texts, of the search and of writing
//! the answer.
#![tactic(auto)]

mod assignment;
mod circle;
pub mod laws;
mod movers;
mod repair;
mod repairing;
mod run;

pub use assignment::assignment_text;
pub use movers::items_that_may_move;
pub use repair::RepairCommand;
pub use repairing::Repairing;
