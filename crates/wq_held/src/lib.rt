//! What the lock of a runtime protects: the book, and the counts of what each caller did, which add up to those of its
//! rows. The code calls a workqueue a lane.
//!
//! What the layer above relies on: whenever the lock is taken, the rows are a legal history
//! under the runtime's assignment, which is safe. Each call under the lock writes at most one
//! row, or those of an ask and a cancellation, and counts them in its caller's seat, except
//! for starts. All seats together count as many rows as the history has, starts left out.
#![tactic(auto)]

mod closing;
mod fault;
mod held;
pub mod laws;
mod making;
mod naming;
mod receipts;
mod seat;
mod tallies;
mod turn;
mod turning;
mod waking;

pub use closing::Closed;
pub use fault::{CloseWhy, NewError, SeatError};
pub use held::{Held, MAX_SEATS};
pub use making::{MAX_LANES, new_held};
pub use naming::Naming;
pub use receipts::{Answered, Ended, Next, NoSeat, Unclosed};
pub use seat::{SEAT_ROWS, Seat};
pub use turn::Turn;
pub use turning::Uncounted;
pub use wq_counts::{Counts, Kind};
pub use wq_history::CallError;
