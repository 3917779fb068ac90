//! What the lock of a runtime protects takes turns: for the calls that a seat counts, for those that none counts, and
//! for whoever is to have a seat. And it is closed at the end.

use crate::lock::{Ends, Turns, Watched};
use std::alloc::Allocator;
use wq_held::{Answered, CallError, Closed, Held, Naming, NoSeat, Seat, Turn, Unclosed, Uncounted};
use wq_history::{AsCall, Reply, Wake};

impl<N: Naming, A: Allocator> Watched for Held<N, A> {
    ghost use Rattle.wq_core.specs.Wiring.{items as items_of};
    ghost use Rattle.wq_held.specs.Turns.{IsFresh, WakesEnoughOf};

    ghost lanes = { N.wiring.lanes };

    ghost items = { items_of N.wiring };

    ghost is_fresh = { IsFresh };

    ghost wakes_enough = { WakesEnoughOf };
}

// ---- calls

impl<N: Naming, A: Allocator, C: AsCall<A>> Turns<Seat<N, A>, C, Result<Reply, CallError>>
    for Held<N, A> {
    ghost use Rattle.wq_held.specs.Locked.{Holds};
    ghost use Rattle.wq_held.specs.Calls.{TakesTurn};

    ghost takes = { λ old counts call turn new left. Holds N.wiring N.rows old.book
        × TakesTurn old counts (C.meant call) turn new left };

    #[tactic(auto, using(crate::proofs::Calls::sleeps_uncounted))]
    fn take(&mut self, own: &mut Seat<N, A>, call: C) -> Turn<Result<Reply, CallError>> {
        self.holds();
        self.turn(own, call)
    }
}

impl<N: Naming, A: Allocator, C: Uncounted<A>> Turns<(), C, Answered<N>> for Held<N, A> {
    ghost use Rattle.wq_held.specs.Locked.{Holds};
    ghost use Rattle.wq_held.specs.Receipts.{TakesTurnOf};

    ghost takes = { λ old none call turn new left. Holds N.wiring N.rows old.book
        × TakesTurnOf old (C.meant call) turn new };

    fn take(&mut self, _own: &mut (), call: C) -> Turn<Answered<N>> {
        self.holds();
        self.turn_uncounted(call)
    }
}

// ---- seats

/// A seat is wanted, in memory of this allocator.
#[derive(Clone, Copy)]
pub(crate) struct SeatIn<A: Allocator + Copy>(pub(crate) A);

impl<N: Naming, A: Allocator + Copy> Turns<(), SeatIn<A>, Result<Seat<N, A>, NoSeat<N>>>
    for Held<N, A> {
    ghost use Rattle.wq_held.specs.Locked.{Holds};
    ghost use Rattle.wq_api.specs.Locking.{MakesSeat};

    ghost takes = { λ old none call turn new left. Holds N.wiring N.rows old.book × MakesSeat N.wiring old turn new };

    fn take(&mut self, _own: &mut (), call: SeatIn<A>) -> Turn<Result<Seat<N, A>, NoSeat<N>>> {
        self.holds();
        Turn::Answers(self.seat(call.0), Wake::nobody())
    }
}

// ---- the end

impl<N: Naming, A: Allocator> Ends<Vec<Seat<N, A>, A>, Closed<N, A>, Unclosed<N>> for Held<N, A> {
    ghost use Rattle.std.specs.Prelude.{◌≡◌, vec_len};
    ghost use Rattle.wq_held.specs.Locked.{Holds, RefusesClose};
    ghost use Rattle.wq_held.specs.Closing.{IsClosed};

    ghost ends = { λ held seats closed. (closed.book ≡ held.book)
        × IsClosed N.wiring N.rows seats.items closed.book closed.counts closed.agree };

    ghost refuses = { λ held seats e. Holds N.wiring N.rows held.book × (e.seats ≡ vec_len seats)
        × RefusesClose held (vec_len seats) e.why };

    fn end(
        self,
        own: Vec<Seat<N, A>, A>,
    ) -> Result<Closed<N, A>, (Held<N, A>, Vec<Seat<N, A>, A>, Unclosed<N>)> {
        self.holds();
        match self.close(own) {
            Ok(closed) => Ok(closed),
            Err(refused) => Err(refused),
        }
    }
}
