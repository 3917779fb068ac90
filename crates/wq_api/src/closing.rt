//! Closing a runtime: first nothing is queued any more, and then, if nothing is unfinished, all is handed back.
//!
//! `destroy` waits until no entry is unfinished. `close` takes time in the number of all counts, and no memory. In each
//! seat there are 22 counts for each item, or for each workqueue if there are more of those.

ghost use Rattle.std.specs.Prelude.{◌≡◌, vec_len, Ok, IfOk, IfErr};
ghost use Rattle.wq_history.specs.declared.call.Call.TheVariants.{Close, Drain};
ghost use Rattle.wq_history.specs.declared.call.Reply.TheVariants.{Done};
ghost use Rattle.wq_held.specs.Locked.{RefusesClose};
ghost use Rattle.wq_held.specs.Closing.{IsClosed};
ghost use Rattle.wq_api.specs.Locking.{UnderLock};
ghost use Rattle.wq_api.specs.Taking.{Destroys, IsDoneBy};

use crate::runtime::WqRuntime;
use std::alloc::Allocator;
use std::sync::Wait;
use wq_held::{Answered, CloseWhy, Closed, Naming, Seat, Unclosed};
use wq_history::{CloseCall, DrainCall};

/// That a runtime was closed, and that nothing was unfinished then.
#[derive(Drop)]
pub struct Destroyed<N: Naming> {
    /// The answer to its closing.
    pub closed: Answered<N>,
    /// The answer to its drain.
    pub drained: Answered<N>,
}

/// A runtime that isn't closed, and the seats that were handed in.
#[derive(Drop)]
pub struct CloseRefused<N: Naming, A: Allocator> {
    /// The runtime, as it was.
    pub runtime: WqRuntime<N, A>,
    /// The seats, as they were.
    pub seats: Vec<Seat<N, A>, A>,
    /// Why.
    pub why: CloseWhy,
    /// That it couldn't be closed with so many seats, for this cause.
    pub by: Unclosed<N>,
}

impl<N: Naming, A: Allocator> WqRuntime<N, A> {
    /// Waits until nothing is unfinished. The book was closed before, as is shown.
    #[tactic(auto, using(crate::proofs::Calls::drained_done))]
    fn drain<R: Wait>(&self, rt: &R, _closed: &Answered<N>) -> Answered<N>
        requires closed { IsDoneBy N.wiring N.rows Close _closed.now }
        ensures { IsDoneBy N.wiring N.rows Drain result }
    {
        self.settle(rt, DrainCall)
    }

    /// Refuses queueings from now on, and waits until no entry is unfinished (`destroy_workqueue`, for all workqueues).
    /// It hands out the answers to its closing and to its drain, which nothing else makes.
    #[tactic(auto, using(crate::proofs::Calls::closed_done))]
    pub fn destroy<R: Wait>(&self, rt: &R) -> Destroyed<N>
        ensures took { Destroys N.wiring N.rows }
        ensures closed { result.closed ≡ record { call = Close; answer = Ok Done } }
        ensures drained { result.drained ≡ record { call = Drain; answer = Ok Done } }
    {
        let closed = self.settle(rt, CloseCall);
        let drained = self.drain(rt, &closed);
        Destroyed { closed, drained }
    }

    /// Closes an idle runtime, given all of its seats, and returns its book and the sums of their counts.
    ///
    /// The error is `NotIdle` (71) if an entry is unfinished or a caller waits, or else `SeatsMissing` (72) if
    /// not all seats are handed in. Then the runtime and the seats are handed back as they were.
    pub fn close(self, seats: Vec<Seat<N, A>, A>) -> Result<Closed<N, A>, CloseRefused<N, A>>
        ensures closed { IfOk result (λ c. IsClosed N.wiring N.rows seats.items c.book c.counts c.agree) }
        ensures why { IfErr result (λ e. UnderLock N.wiring N.rows (λ h. RefusesClose h (vec_len seats) e.why)) }
        ensures by { IfErr result (λ e. e.by ≡ record { seats = vec_len seats; why = e.why }) }
        ensures kept { IfErr result (λ e. (e.seats ≡ seats) × (e.runtime.layout ≡ self.layout)
            × (e.runtime.lock.condvars ≡ self.lock.condvars)) }
    {
        let WqRuntime { lock, layout } = self;
        match lock.end(seats) {
            Ok(closed) => Ok(closed),
            Err((lock, seats, by)) => Err(CloseRefused {
                runtime: WqRuntime { lock, layout },
                seats,
                why: by.why(),
                by,
            }),
        }
    }
}
