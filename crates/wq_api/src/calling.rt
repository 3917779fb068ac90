//! How a runtime is called: what the caller can know is refused at once, and all else is answered under the lock.
//!
//! The methods of `runtime`, `serving` and `closing` are made of these. What is asked under the lock is a call, a
//! value. So the clause `took` of a method says which call it makes, and of a method that waits, which two. Apart from
//! what it waits for, a call takes the time of the book's answer.

ghost use Rattle.std.specs.Prelude.{◌↔◌, ◌≡◌, IsTrue, Result};
ghost use Rattle.wq_history.specs.declared.call.Call.TheVariants.{CancelSync, Start};
ghost use Rattle.wq_history.specs.History.{IsThere};
ghost use Rattle.wq_held.specs.Calls.{IsNamed, missing, needs_room};
ghost use Rattle.wq_api.specs.Taking.{WritesOne, AdmitsOrBars, IsAnswered, Took, ComesTo, GivesRow, GivesTwo, GivesYes};
ghost use Rattle.wq_api.specs.Taking.{GivesNext, TellsOrNot, Flushes, CancelsSync, Waits};

use crate::runtime::WqRuntime;
use std::alloc::Allocator;
use std::sync::Wait;
use wq_core::Context;
use wq_held::{Answered, CallError, Naming, Next, Seat, Uncounted};
use wq_history::{
    AsCall, AskCall, Call, CancelSyncCall, Flush, OverCall, Reply, Row, StartCall, Subject,
    ToldCall, WaitCall,
};
use wq_items::ItemId;

// ---- what a caller can know

impl<N: Naming, A: Allocator> WqRuntime<N, A> {
    /// Whether there is such an item, or such a workqueue.
    fn has_subject(&self, subject: &Subject) -> bool
        ensures { IsTrue result ↔ IsThere N.wiring subject.now }
    {
        match *subject {
            Subject::Item(item) => self.has_item(item),
            Subject::Lane(q) => self.has_lane(q),
        }
    }

    /// Whether what a call names is there.
    fn has_named(&self, call: &Call) -> bool
        ensures { IsTrue result ↔ IsNamed N.wiring call.now }
    {
        match *call {
            Call::Queue(item) => self.has_item(item),
            Call::Cancel(item) => self.has_item(item),
            Call::Ask(subject) => self.has_subject(&subject),
            Call::CancelSync(item) => self.has_item(item),
            Call::Wait(context, _) => self.has_context(context.lane, context.number),
            _ => true,
        }
    }
}

/// The refusal of a call that names what isn't there.
fn missing(call: &Call) -> CallError
    ensures { result ≡ missing call.now }
{
    match *call {
        Call::Queue(_) | Call::Cancel(_) | Call::CancelSync(_) => CallError::NoItem,
        Call::Ask(Subject::Item(_)) => CallError::NoItem,
        _ => CallError::WrongLane,
    }
}

/// Whether a full seat refuses a call.
fn needs_room(call: &Call) -> bool
    ensures { result ≡ needs_room call.now }
{
    match *call {
        Call::Queue(_) | Call::Cancel(_) | Call::Ask(_) => true,
        Call::CancelSync(_) | Call::Wait(_, _) => true,
        _ => false,
    }
}

impl<N: Naming, A: Allocator> WqRuntime<N, A> {
    /// Whether its caller may make a call: the error is that what it names isn't there (64, 66), or else that the seat
    /// is full (60). It doesn't take the lock.
    fn admit<C: AsCall<A>>(&self, seat: &Seat<N, A>, call: &C) -> Result<(), CallError>
        ensures { AdmitsOrBars N.wiring seat.now (C.meant call.now) result }
    {
        let call = call.call();
        if !self.has_named(&call) {
            return Err(missing(&call));
        }
        if needs_room(&call) && seat.is_full() {
            return Err(CallError::HistoryFull);
        }
        Ok(())
    }

    // ---- one call

    /// Has a call answered under the lock, once it isn't too early.
    fn answer<R: Wait, C: AsCall<A>>(
        &self,
        rt: &R,
        seat: &mut Seat<N, A>,
        call: C,
    ) -> Result<Reply, CallError>
        ensures { Took N.wiring N.rows seat.old (C.meant call) result seat.new }
    {
        let (answer, _woken) = self.lock.call(rt, seat, call);
        answer
    }

    /// The same of a call that no seat counts, and that it was answered so.
    pub(crate) fn settle<R: Wait, C: Uncounted<A>>(&self, rt: &R, call: C) -> Answered<N>
        ensures { (result.call ≡ C.meant call) × IsAnswered N.wiring N.rows (C.meant call) result.answer }
    {
        let (answered, _woken) = self.lock.call(rt, &mut (), call);
        answered
    }

    /// Has a call that writes one row answered under the lock.
    #[tactic(auto, using(crate::proofs::Calls::one_row))]
    pub(crate) fn written<R: Wait, C: AsCall<A>>(
        &self,
        rt: &R,
        seat: &mut Seat<N, A>,
        call: C,
    ) -> Result<Row, CallError>
        requires { WritesOne (C.meant call) }
        ensures { GivesRow (λ answer. Took N.wiring N.rows seat.old (C.meant call) answer seat.new) result }
    {
        match self.answer(rt, seat, call) {
            Ok(Reply::Wrote(row)) => Ok(row),
            Ok(Reply::WroteTwo(_, _)) => unreachable!(),
            Ok(Reply::Done) => unreachable!(),
            Ok(Reply::NotYet) => unreachable!(),
            Err(e) => Err(e),
        }
    }

    /// Makes a call that writes one row, and gives the row.
    fn row<R: Wait, C: AsCall<A>>(
        &self,
        rt: &R,
        seat: &mut Seat<N, A>,
        call: C,
    ) -> Result<Row, CallError>
        requires { WritesOne (C.meant call) }
        ensures { GivesRow (λ answer. ComesTo N.wiring N.rows seat.old (C.meant call) answer seat.new) result }
    {
        match self.admit(seat, &call) {
            Ok(()) => self.written(rt, seat, call),
            Err(e) => Err(e),
        }
    }

    /// Makes a call that writes one row, and gives what the row says.
    pub(crate) fn yes<R: Wait, C: AsCall<A>>(
        &self,
        rt: &R,
        seat: &mut Seat<N, A>,
        call: C,
    ) -> Result<bool, CallError>
        requires { WritesOne (C.meant call) }
        ensures { GivesYes (λ answer. ComesTo N.wiring N.rows seat.old (C.meant call) answer seat.new) result }
    {
        match self.row(rt, seat, call) {
            Ok(row) => Ok(row.yes),
            Err(e) => Err(e),
        }
    }

    /// Starts what a context can start next, once there is something.
    pub(crate) fn start<R: Wait>(&self, rt: &R, context: &Context) -> Result<Next<N>, CallError>
        ensures { GivesNext context.now (λ answer. IsAnswered N.wiring N.rows (Start context.now) answer) result }
    {
        let answered = self.settle(rt, StartCall { context: *context });
        match answered.answer() {
            Ok(Reply::Wrote(row)) => Ok(Next::started(*context, &row, &answered)),
            Ok(Reply::WroteTwo(_, _)) => unreachable!(),
            Ok(Reply::Done) => Ok(Next::ended(*context, &answered)),
            Ok(Reply::NotYet) => unreachable!(),
            Err(e) => Err(e),
        }
    }

    // ---- two calls

    /// Makes an ask and a cancellation in one call, and gives both rows.
    fn two_rows<R: Wait>(
        &self,
        rt: &R,
        seat: &mut Seat<N, A>,
        item: ItemId,
    ) -> Result<(Row, Row), CallError>
        ensures { GivesTwo (λ answer. ComesTo N.wiring N.rows seat.old (CancelSync item) answer seat.new) result }
    {
        let call = CancelSyncCall { item };
        if let Err(e) = self.admit(seat, &call) {
            return Err(e);
        }
        match self.answer(rt, seat, call) {
            Ok(Reply::WroteTwo(asked, taken)) => Ok((asked, taken)),
            Ok(Reply::Wrote(_)) => unreachable!(),
            Ok(Reply::Done) => unreachable!(),
            Ok(Reply::NotYet) => unreachable!(),
            Err(e) => Err(e),
        }
    }

    /// Waits until an ask is told that its wait is over, if it waits.
    fn be_told<R: Wait>(
        &self,
        rt: &R,
        seat: &mut Seat<N, A>,
        subject: &Subject,
        asked: &Row,
    ) -> Result<(), CallError>
        ensures { TellsOrNot N.wiring N.rows seat.old subject.now asked.now result seat.new }
    {
        if !asked.yes {
            return Ok(());
        }
        let call = ToldCall {
            subject: *subject,
            mark: asked.number,
        };
        match self.written(rt, seat, call) {
            Ok(_row) => Ok(()),
            Err(e) => Err(e),
        }
    }

    /// Asks whether anything is unfinished there, and if it is, waits until it is told with the mark of its ask.
    pub(crate) fn flush<R: Wait>(
        &self,
        rt: &R,
        seat: &mut Seat<N, A>,
        subject: &Subject,
    ) -> Result<bool, CallError>
        ensures { Flushes N.wiring N.rows seat.old subject.now result seat.new }
    {
        let asked = match self.row(rt, seat, AskCall { subject: *subject }) {
            Ok(asked) => asked,
            Err(e) => return Err(e),
        };
        match self.be_told(rt, seat, subject, &asked) {
            Ok(()) => Ok(asked.yes),
            Err(e) => Err(e),
        }
    }

    /// Asks about an item and removes its pending entry in one call, and if the ask waits, waits until it is told.
    pub(crate) fn cancel_and_wait<R: Wait>(
        &self,
        rt: &R,
        seat: &mut Seat<N, A>,
        item: ItemId,
    ) -> Result<bool, CallError>
        ensures { CancelsSync N.wiring N.rows seat.old item result seat.new }
    {
        let (asked, taken) = match self.two_rows(rt, seat, item) {
            Ok(rows) => rows,
            Err(e) => return Err(e),
        };
        match self.be_told(rt, seat, &Subject::Item(item), &asked) {
            Ok(()) => Ok(taken.yes),
            Err(e) => Err(e),
        }
    }

    /// Makes what a context runs begin to wait, and waits until that is over.
    pub(crate) fn wait<R: Wait>(
        &self,
        rt: &R,
        seat: &mut Seat<N, A>,
        context: &Context,
        flush: &Flush,
    ) -> Result<bool, CallError>
        ensures { Waits N.wiring N.rows seat.old context.now flush.now result seat.new }
    {
        let begin = WaitCall {
            context: *context,
            flush: *flush,
        };
        let began = match self.row(rt, seat, begin) {
            Ok(began) => began,
            Err(e) => return Err(e),
        };
        let end = OverCall {
            context: *context,
            flush: *flush,
        };
        match self.written(rt, seat, end) {
            Ok(_row) => Ok(began.yes),
            Err(e) => Err(e),
        }
    }
}
