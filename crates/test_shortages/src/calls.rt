//! The calls of a caller in one thread: a seat, and the calls that are made with it.
//!
//! What each call answers was worked out by hand from "Runtimes" in docs/RUNTIME.md.
//! They take time in the rows of the history.

use crate::closing::closes;
use crate::trial::TrialEnd;
use std::alloc::Allocator;
use std::sync::Wait;
use wq_api::{CallError, CloseWhy, Closed, Naming, Seat, SeatError, WqRuntime};
use wq_groups::LaneId;
use wq_items::ItemId;

/// The rows that the calls write.
const HISTORY: &[u8; 96] = &[
    1, 1, 0, 0, 0, 0, 0, 0, 0, 0, 0, 0, // Queue a, yes, 0
    1, 0, 0, 0, 0, 0, 0, 0, 0, 0, 0, 0, // Queue a, no, 0
    2, 1, 0, 0, 0, 0, 0, 0, 0, 0, 0, 0, // Cancel a, yes, 0
    7, 0, 0, 0, 0, 0, 0, 0, 1, 0, 0, 0, // Ask a, no, 1
    1, 1, 0, 0, 0, 0, 0, 0, 1, 0, 0, 0, // Queue a, yes, 1
    7, 1, 0, 0, 0, 0, 0, 0, 2, 0, 0, 0, // Ask a, yes, 2
    2, 1, 0, 0, 0, 0, 0, 0, 1, 0, 0, 0, // Cancel a, yes, 1
    8, 1, 0, 0, 0, 0, 0, 0, 2, 0, 0, 0, // Told a, yes, 2
];

/// Makes the calls. Gives whether each is answered as it should be.
fn make_calls<N: Naming, R: Wait, A: Allocator>(
    rt: &R,
    runtime: &WqRuntime<N, A>,
    seat: &mut Seat<N, A>,
) -> bool {
    let (a, low, high) = (ItemId::new(0), LaneId::new(0), LaneId::new(1));
    let queued = runtime.queue_work(rt, seat, high, a);
    let again = runtime.queue_work(rt, seat, high, a);
    let elsewhere = runtime.queue_work(rt, seat, low, a);
    let cancelled = runtime.cancel_work(rt, seat, a);
    let flushed = runtime.flush_work(rt, seat, a);
    let anew = runtime.queue_work(rt, seat, high, a);
    let stopped = runtime.cancel_work_sync(rt, seat, a);
    let _destroyed = runtime.destroy(rt);
    let late = runtime.queue_work(rt, seat, high, a);
    (queued, again, elsewhere) == (Ok(true), Ok(false), Err(CallError::WrongLane))
        && (cancelled, flushed, anew) == (Ok(true), Ok(false), Ok(true))
        && (stopped, late) == (Ok(true), Err(CallError::Closed))
}

/// Whether a runtime that is closed has the counts and the rows of the calls.
fn is_counted<N: Naming, A: Allocator>(closed: &Closed<N, A>) -> bool {
    let (a, counts) = (ItemId::new(0), &closed.counts);
    let numbers = (
        counts.queued(a),
        counts.cancelled(a),
        counts.finished(a),
        counts.total(),
    );
    closed.agree && numbers == (2, 2, 0, 8) && closed.book.packed() == HISTORY.as_slice()
}

/// Closes a runtime without a seat, which must be refused, and then with the seat.
/// Gives whether all is as it should be.
fn close_twice<N: Naming, A: Allocator + Copy>(
    alloc: A,
    runtime: WqRuntime<N, A>,
    seat: Seat<N, A>,
) -> bool {
    let Err(refused) = runtime.close(Vec::new(alloc)) else {
        return false;
    };
    let is_missed = refused.why == CloseWhy::SeatsMissing;
    let mut seats = refused.seats;
    if seats.push(seat).is_err() {
        return false;
    }
    match refused.runtime.close(seats) {
        Ok(closed) => is_missed && is_counted(&closed),
        Err(_) => false,
    }
}

/// Makes a seat of a runtime, makes the calls with it, and closes the runtime. If there is no memory for the seat,
/// the runtime is closed without one.
pub(crate) fn sit<N: Naming, R: Wait, A: Allocator + Copy>(
    rt: &R,
    ample: A,
    heap: A,
    runtime: WqRuntime<N, A>,
) -> TrialEnd {
    match runtime.seat(rt, heap) {
        Ok(mut seat) => {
            let is_answered = make_calls(rt, &runtime, &mut seat);
            if close_twice(ample, runtime, seat) && is_answered {
                TrialEnd::Answered
            } else {
                TrialEnd::Wrong
            }
        }
        Err(refused) => {
            let is_memory = refused.why() == SeatError::OutOfMemory;
            if closes(runtime, Vec::new(ample)) && is_memory {
                TrialEnd::Refused
            } else {
                TrialEnd::Wrong
            }
        }
    }
}
