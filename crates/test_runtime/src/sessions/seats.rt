//! Seats of a runtime, the calls that count in them, and the answers of these calls.
//!
//! A line takes the time of its call and of printing the answer.

use crate::sessions::asking::{Counted, RuntimeCall};
use crate::testbed::{put_code, put_done, put_item};
use std::alloc::{AllocError, Global};
use std::sync::Wait;
use wq_api::{CallError, Naming, Next, Seat, SeatError, WqRuntime};
use wq_groups::LaneId;
use wq_items::{ItemId, ItemTable};

/// The answer of a call that says yes or no.
fn put_said(out: &mut String, said: Result<bool, CallError>) -> Result<(), AllocError> {
    match said {
        Ok(said) => write!(out, "{said}"),
        Err(error) => put_code(out, error.code()),
    }
}

/// The answer of `next`.
fn put_next<N: Naming>(
    out: &mut String,
    table: &ItemTable<'_, Global>,
    next: &Result<Next<N>, CallError>,
) -> Result<(), AllocError> {
    match next {
        Ok(next) => match next.item() {
            Some(item) => put_item(out, table, item),
            None => out.push_str("none"),
        },
        Err(error) => put_code(out, error.code()),
    }
}

/// The answer of `lane_of`.
fn put_lane(out: &mut String, lane: Option<LaneId>) -> Result<(), AllocError> {
    match lane {
        Some(q) => write!(out, "{}", q.get()),
        None => out.push_str("none"),
    }
}

/// The answer of a call that makes seats: a number, or that a seat was refused.
fn put_seats(out: &mut String, are_made: bool, number: usize) -> Result<(), AllocError> {
    if are_made {
        write!(out, "{number}")
    } else {
        put_code(out, 70)
    }
}

/// All seats of a runtime, and the number of the one in which calls count.
#[derive(Drop)]
pub(crate) struct Seats<N: Naming> {
    pub(crate) made: Vec<Seat<N, Global>>,
    used: usize,
}

/// Makes a call that counts in a seat, and adds the answer.
fn make_counted<N: Naming, R: Wait>(
    rt: &R,
    runtime: &WqRuntime<N, Global>,
    seat: &mut Seat<N, Global>,
    call: Counted,
    out: &mut String,
) -> Result<(), AllocError> {
    match call {
        Counted::Queue(q, item) => put_said(out, runtime.queue_work(rt, seat, q, item)),
        Counted::Cancel(item) => put_said(out, runtime.cancel_work(rt, seat, item)),
        Counted::Flush(item) => put_said(out, runtime.flush_work(rt, seat, item)),
        Counted::CancelSync(item) => put_said(out, runtime.cancel_work_sync(rt, seat, item)),
        Counted::FlushLane(q) => put_done(out, runtime.flush_workqueue(rt, seat, q)),
        Counted::Wait(q, item) => put_said(out, runtime.wait_for(rt, seat, q, item)),
        Counted::WaitAll(q, item) => put_said(out, runtime.wait_all_for(rt, seat, q, item)),
        Counted::Finish(q, item) => put_done(out, runtime.finish_work(rt, seat, q, item)),
        Counted::HelpWait(q, h, item) => put_said(out, runtime.help_wait_for(rt, seat, q, h, item)),
        Counted::HelpWaitAll(q, h, item) => {
            put_said(out, runtime.help_wait_all_for(rt, seat, q, h, item))
        }
        Counted::HelpFinish(q, h, item) => {
            put_done(out, runtime.help_finish_work(rt, seat, q, h, item))
        }
    }
}

impl<N: Naming> Seats<N> {
    /// No seat.
    pub(crate) fn new(alloc: Global) -> Self {
        Seats {
            made: Vec::new(alloc),
            used: 0,
        }
    }

    /// Makes this many more seats. Returns false if the runtime doesn't make all of them.
    pub(crate) fn add<R: Wait>(
        &mut self,
        rt: &R,
        alloc: Global,
        runtime: &WqRuntime<N, Global>,
        count: u32,
    ) -> Result<bool, AllocError> {
        for _ in 0..count {
            match runtime.seat(rt, alloc) {
                Ok(seat) => self.made.push(seat)?,
                Err(refused) => {
                    return match refused.why() {
                        SeatError::TooManySeats => Ok(false),
                        SeatError::OutOfMemory => Err(AllocError),
                    };
                }
            }
        }
        Ok(true)
    }

    /// Takes over other seats, which come after these.
    pub(crate) fn take(&mut self, mut other: Seats<N>) -> Result<(), AllocError> {
        self.made.append(&mut other.made)
    }

    /// Has the calls that follow count in this seat, if there is one.
    fn choose(&mut self, seat: u32, out: &mut String) -> Result<(), AllocError> {
        if seat as usize >= self.made.len() {
            return out.push_str("none");
        }
        self.used = seat as usize;
        out.push_str("ok")
    }

    /// Makes a call that counts in the seat that is in use.
    fn count<R: Wait>(
        &mut self,
        rt: &R,
        runtime: &WqRuntime<N, Global>,
        call: Counted,
        out: &mut String,
    ) -> Result<(), AllocError> {
        match self.made.get_mut(self.used) {
            Some(seat) => make_counted(rt, runtime, seat, call, out),
            None => out.push_str("none"),
        }
    }

    /// Adds what the seat that is in use has counted of an item.
    fn tell(&self, item: ItemId, out: &mut String) -> Result<(), AllocError> {
        match self.made.get(self.used) {
            Some(seat) => write!(
                out,
                "queued {} cancelled {} finished {} total {}",
                seat.queued(item),
                seat.cancelled(item),
                seat.finished(item),
                seat.total()
            ),
            None => out.push_str("none"),
        }
    }

    /// Adds what the seat that is in use has counted of a lane.
    fn tell_lane(&self, q: LaneId, out: &mut String) -> Result<(), AllocError> {
        match self.made.get(self.used) {
            Some(seat) => write!(
                out,
                "asked yes {} no {} told {} total {}",
                seat.asked_lane(q, true),
                seat.asked_lane(q, false),
                seat.told_lane(q),
                seat.total()
            ),
            None => out.push_str("none"),
        }
    }

    /// Makes a call that doesn't close the runtime, and adds the answer.
    pub(crate) fn ask<R: Wait>(
        &mut self,
        rt: &R,
        alloc: Global,
        runtime: &WqRuntime<N, Global>,
        table: &ItemTable<'_, Global>,
        call: RuntimeCall,
        out: &mut String,
    ) -> Result<(), AllocError> {
        match call {
            RuntimeCall::Counted(call) => self.count(rt, runtime, call, out),
            RuntimeCall::Seat => {
                let number = self.made.len();
                let is_made = self.add(rt, alloc, runtime, 1)?;
                put_seats(out, is_made, number)
            }
            RuntimeCall::Seats(count) => {
                let are_made = self.add(rt, alloc, runtime, count)?;
                put_seats(out, are_made, self.made.len())
            }
            RuntimeCall::Use(seat) => self.choose(seat, out),
            RuntimeCall::Tell(item) => self.tell(item, out),
            RuntimeCall::TellLane(q) => self.tell_lane(q, out),
            RuntimeCall::Next(q) => put_next(out, table, &runtime.next(rt, q)),
            RuntimeCall::HelpNext(q, h) => put_next(out, table, &runtime.help_next(rt, q, h)),
            RuntimeCall::Helpers(q) => write!(out, "{}", runtime.helpers_of(q)),
            RuntimeCall::Lanes => write!(out, "{}", runtime.lanes()),
            RuntimeCall::Lane(item) => put_lane(out, runtime.lane_of(item)),
            RuntimeCall::Destroy => {
                let _destroyed = runtime.destroy(rt);
                out.push_str("ok")
            }
            RuntimeCall::Close(_) => Ok(()),
        }
    }
}
