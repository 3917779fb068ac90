//! The calls of a runtime under its lock: the book answers, the caller's seat counts, and somebody is woken or sleeps.
//!
//! A call that is too early changes nothing. A call takes the time of the book's answer, and no memory.

ghost use Rattle.std.specs.Prelude.{◌≡◌};
ghost use Rattle.wq_core.specs.Wiring.{items};
ghost use Rattle.wq_held.specs.Calls.{WasAnswered, BecomesTurn, TakesTurn};
ghost use Rattle.wq_held.specs.Receipts.{TakesTurnOf, ShowsTurn};
ghost use Rattle.wq_held.specs.Turns.{Wakes, WakesEnoughOf};

use crate::held::Held;
use crate::naming::Naming;
use crate::receipts::Answered;
use crate::seat::Seat;
use crate::turn::Turn;
use crate::waking::{by_done, by_refusal, by_row, sleepers};
use std::alloc::Allocator;
use wq_history::{AsCall, Book, Call, CallError, CloseCall, DrainCall, Reply, StartCall};

/// A call of which no seat counts anything, whatever is answered: a start, the closing, or a drain.
pub trait Uncounted<A: Allocator>: AsCall<A> {
    ghost use Rattle.wq_held.specs.Calls.{IsUncounted};

    ghost is_uncounted: { (c : Self) → IsUncounted (Self.meant c) };
}

impl<A: Allocator> Uncounted<A> for StartCall {
    ghost is_uncounted = { λ c. tt };
}

impl<A: Allocator> Uncounted<A> for CloseCall {
    ghost is_uncounted = { λ c. tt };
}

impl<A: Allocator> Uncounted<A> for DrainCall {
    ghost is_uncounted = { λ c. tt };
}

/// What a call comes to that the book answered so.
#[inline(always)]
fn turn_of<A: Allocator>(
    book: &Book<A>,
    call: &Call,
    answer: Result<Reply, CallError>,
) -> Turn<Result<Reply, CallError>>
    requires { WasAnswered book.now call.now answer }
    ensures { BecomesTurn book.now call.now answer result }
{
    match answer {
        Ok(Reply::Wrote(row)) => {
            let wake = by_row(book, &row);
            Turn::Answers(Ok(Reply::Wrote(row)), wake)
        }
        Ok(Reply::WroteTwo(asked, taken)) => {
            let wake = by_row(book, &taken);
            Turn::Answers(Ok(Reply::WroteTwo(asked, taken)), wake)
        }
        Ok(Reply::Done) => Turn::Answers(Ok(Reply::Done), by_done(call)),
        Ok(Reply::NotYet) => Turn::Sleeps(sleepers(book, call)),
        Err(e) => Turn::Answers(Err(e), by_refusal(call)),
    }
}

/// What a call comes to, with a value that shows its answer.
#[inline(always)]
fn shown<N: Naming>(call: Call, turn: Turn<Result<Reply, CallError>>) -> Turn<Answered<N>>
    ensures { ShowsTurn call turn result }
{
    match turn {
        Turn::Answers(answer, wake) => Turn::Answers(Answered::new(call, answer), wake),
        Turn::Sleeps(among) => Turn::Sleeps(among),
    }
}

impl<N: Naming, A: Allocator> Held<N, A> {
    /// Answers a call, counts the row or rows that it wrote in the caller's seat, and says which sleepers are woken;
    /// or, if it is too early, says in which group the caller sleeps, and changes nothing.
    pub fn turn<C: AsCall<A>>(
        &mut self,
        seat: &mut Seat<N, A>,
        call: C,
    ) -> Turn<Result<Reply, CallError>>
        ensures takes { TakesTurn self.old seat.old (C.meant call) result self.new seat.new }
        ensures wakes { Wakes N.wiring.lanes (items N.wiring) WakesEnoughOf self.old self.new result }
    {
        self.holds();
        let meant = call.call();
        let answer = call.answer_by(&mut self.book);
        self.tallies.count_answer(seat, &answer);
        turn_of(&self.book, &meant, answer)
    }

    /// The same of a call of which no seat counts anything. What it hands out shows that it was answered.
    pub fn turn_uncounted<C: Uncounted<A>>(&mut self, call: C) -> Turn<Answered<N>>
        ensures takes { TakesTurnOf self.old (C.meant call) result self.new }
        ensures wakes { Wakes N.wiring.lanes (items N.wiring) WakesEnoughOf self.old self.new result }
    {
        self.holds();
        let meant = call.call();
        let answer = call.answer_by(&mut self.book);
        shown(meant, turn_of(&self.book, &meant, answer))
    }
}
