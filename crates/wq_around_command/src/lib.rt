//! The commands `plan` and `check` around workqueues that stay as they are.
//!
//! What the program relies on: the fewest new workqueues are printed, and a yes of `check` is true. What `plan` prints
//! is read back, and `check` answers yes to it around the same workqueues. Where there is no fixed workqueue, they
//! answer as if none were given. The rules are those of "Planning around workqueues" in docs/FORMAT.md.
#![tactic(auto)]

mod check;
mod checking;
pub mod laws;
mod plan;
mod planning;
mod saying;

pub use check::CheckAroundCommand;
pub use checking::Checked;
pub use plan::PlanAroundCommand;
pub use planning::Planned;
