//! The book: what happened to the items of a machine, one row for each event.
//!
//! What the layer above relies on: the rows of a book are a legal history, and its replay is the
//! state that the book holds. Each event that takes place appends exactly one row. A refusal appends
//! none, nor does an answer that nothing has happened yet. Neither a rescuer, nor a helper, nor a
//! waiting caller ever lacks a row for what comes next, since rows are kept free for them. Whoever
//! has the bytes of a history and its machine can judge the history, row by row, from these alone.
#![tactic(auto)]

mod answering;
mod ask_counts;
mod asking;
mod book;
mod call;
mod fault;
mod judging;
mod kinds;
pub mod laws;
mod row_error;
mod sleepers;
mod waits;

pub use asking::{Ask, Asked, LaneAsk, LaneAsked, LaneTold, Subject, Told};
pub use book::Book;
pub use call::{Call, Flush, Reply};
pub use fault::{BookError, CallError};
pub use judging::check_rows;
pub use kinds::{
    AsCall, AskCall, CancelCall, CancelSyncCall, CloseCall, DrainCall, FinishCall, OverCall,
    QueueCall, StartCall, ToldCall, WaitCall,
};
pub use row_error::{RowError, RowFault};
pub use sleepers::{Sleepers, Wake, WokenContexts};
pub use wq_rows::{Event, MAX_ROWS, Row, Rows, pack, unpack};
