//! The checker: whether a certificate shows what it says, and how a run ends.
//!
//! The layer above relies on this: a yes to a plan implies that no run of it ends stuck, and that every assignment to
//! fewer workqueues deadlocks; a yes to a circle implies that every assignment deadlocks; a no is the first reason that
//! applies. Around workqueues that stay, a yes implies this of all that keep them. The checker is independent: it uses
//! nothing of what makes plans, ranks or deadlocking runs. The rules are those of "The command `check`", "The command
//! `replay`" and "Planning around workqueues" in docs/FORMAT.md.
//!
//! Checking takes time linear in the number of items, of flushes and, for each arc, of the flushes of its item. A run
//! takes, for each step, time linear in the number of entries that are pending on a workqueue or of flushes of an item.
#![tactic(auto)]

mod answer;
mod around;
mod chains;
mod checking;
mod checking_around;
mod falling;
pub mod laws;
mod once;
mod run;
mod running;

pub use answer::{No, Yes};
pub use around::{NoAround, YesAround};
pub use checking::check_answer;
pub use checking_around::check_around;
pub use run::RunEnd;
pub use running::{check_run, check_run_for, check_run_on};
