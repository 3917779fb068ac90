//! What is said on standard error beside the answer of `repair`: which workqueues are changed, and how they would hang
//! without each of these changes.
//!
//! What the program relies on: each change is said exactly once, with the workqueues that it is about, and nothing else
//! is said to be changed. The waits that are said of a change are those of a walk whose run is a shortest of all runs
//! that end stuck without the change. The repair is the one that the command found and printed: it isn't searched for
//! again. The form is that of "Changes" in docs/FORMAT.md. A call takes the time and the memory of going through the
//! texts for lines and names, and of a search for a shortest run for each of the first changes.
#![tactic(auto)]

mod answer;
mod change;
mod circle;
mod few;
pub mod laws;
mod places;
mod telling;
mod voice;
mod without;
mod words;

pub use change::Change;
pub use voice::RepairVoice;
