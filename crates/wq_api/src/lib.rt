//! The runtime: what `queue_work`, `flush_work`, `flush_workqueue`, `cancel_work_sync` and `destroy_workqueue` do, for
//! many threads over one book, with exact counts of what each thread did. The code calls a workqueue a lane.
//!
//! What the layer above relies on: a runtime is made only from an assignment that is safe. Each method says which calls
//! of a book it makes. Each call counts, in its caller's seat, the rows that it wrote, except for starts. Each call
//! that may wait for another thread sleeps without the lock. Here the lock is taken, callers sleep, and are woken. What
//! the lock protects, and what a call does to it, is `wq_held`.
#![tactic(auto)]

mod bells;
mod calling;
mod closing;
mod condvars;
mod entered;
mod layout;
mod lock;
mod runtime;
mod serving;
mod turns;

pub use closing::{CloseRefused, Destroyed};
pub use runtime::WqRuntime;
pub use wq_core::{Context, MAX_HELPERS};
pub use wq_counts::{Counts, Kind};
pub use wq_held::{
    Answered, CallError, CloseWhy, Closed, Ended, Held, MAX_LANES, MAX_SEATS, Naming, NewError,
    Next, NoSeat, SEAT_ROWS, Seat, SeatError, Unclosed,
};
