//! Serving a workqueue: the calls of its rescuer and of its helpers.
//!
//! A context of a workqueue is its rescuer or one of its helpers. It starts the next entry that it can, runs the body,
//! which may wait for items and workqueues, and finishes the entry (`rescuer_thread`, `worker_thread` and
//! `process_one_work` in kernel/workqueue.c). No two contexts run an item at the same time. The body runs between these
//! calls, without the lock. A helper's call is the rescuer's with the number of the helper after the workqueue; both
//! are one call by context. Apart from what it waits for, a call takes the time of the book's events.

ghost use Rattle.std.specs.Prelude.{◌≡◌, ◌<◌, true, false, IfOk, IfErr, OnOk, OnErr, IfSome};
ghost use Rattle.wq_core.specs.Wiring.{items, HasContext};
ghost use Rattle.wq_counts.specs.declared.kind.Kind.TheVariants.{Finish as FinishKind};
ghost use Rattle.wq_counts.specs.Counting.{raised};
ghost use Rattle.wq_history.specs.declared.fault.CallError.TheVariants.{WrongLane};
ghost use Rattle.wq_history.specs.declared.call.Call.TheVariants.{Start, Finish};
ghost use Rattle.wq_held.specs.Locked.{IsOnLane, SeatHasRoom};
ghost use Rattle.wq_api.specs.Refusals.{RefusesWaitFor, RefusesWaitIn};
ghost use Rattle.wq_api.specs.WaitingCalls.{IsHelper, waited_for, RefusedWaitFor, RefusedWaitIn, RefusesHelpWaitFor};
ghost use Rattle.wq_api.specs.WaitingCalls.{RefusedHelpWaitFor, HasWaiter};
ghost use Rattle.wq_api.specs.Locking.{WasWrongToStartIn};
ghost use Rattle.wq_api.specs.Taking.{context_of, flush_of, IsAnswered, Took, GivesDone, GivesNext, Waits};

use crate::runtime::WqRuntime;
use std::alloc::Allocator;
use std::sync::Wait;
use wq_core::Context;
use wq_groups::LaneId;
use wq_held::{CallError, Naming, Next, Seat};
use wq_history::{FinishCall, Flush};
use wq_items::ItemId;

impl<N: Naming, A: Allocator> WqRuntime<N, A> {
    // ---- by context

    /// Starts the next entry that a context can start, for whoever serves it, and gives its item: the first pending one
    /// of its workqueue whose item no context runs. It waits while there is none, unless nothing is pending on the
    /// workqueue and the runtime is closed. Then it gives nothing.
    ///
    /// The only error is `WrongLane` (64), if there is no such context or it runs
    /// an entry. After an error nothing is changed.
    #[tactic(auto, using(crate::proofs::Contexts::by_start))]
    pub fn next_in<R: Wait>(&self, rt: &R, context: Context) -> Result<Next<N>, CallError>
        ensures took { GivesNext context (λ answer. IsAnswered N.wiring N.rows (Start context) answer) result }
        ensures started { IfOk result (λ next. HasContext N.wiring context.lane context.number
            × IfSome next.item (λ item. IsOnLane N.wiring context.lane item)) }
        ensures refused { IfErr result (λ e. e ≡ WrongLane) }
        ensures cause { OnErr result (WasWrongToStartIn N.wiring N.rows context.lane context.number) }
    {
        self.start(rt, &context)
    }

    /// Makes what a context runs wait for an item (`flush_work` in a work function), or for the whole workqueue of the
    /// item (`flush_workqueue`), until none of the entries there that were queued before the call is unfinished: true
    /// if one was when the wait began.
    ///
    /// The error is the first of these that holds: `WrongLane` (64), if there is no such context; `HistoryFull`
    /// (60), if the seat is full; `WrongLane` (64), if the context runs nothing or waits; `Undeclared` (62),
    /// if what it runs declares no such flush; `TooManyWaits` (63). Then nothing is changed or counted.
    #[tactic(auto, using(crate::proofs::Contexts::by_wait))]
    pub fn wait_in<R: Wait>(
        &self,
        rt: &R,
        seat: &mut Seat<N, A>,
        context: Context,
        flush: Flush,
    ) -> Result<bool, CallError>
        ensures took { Waits N.wiring N.rows seat.old context flush result seat.new }
        ensures counted { IfOk result (λ unfinished. HasContext N.wiring context.lane context.number
            × (flush.target < items N.wiring)
            × SeatHasRoom seat.old
            × (seat.new ≡ waited_for seat.old flush.whole flush.target unfinished)) }
        ensures refused { IfErr result (λ e. RefusesWaitIn N.wiring seat.old context.lane context.number e
            × RefusedWaitIn N.wiring seat.old seat.new context.lane context.number flush.whole flush.target e) }
        ensures waiter { HasContext N.wiring context.lane context.number → SeatHasRoom seat.old
            → HasWaiter N.wiring context.lane flush.whole flush.target result }
    {
        self.wait(rt, seat, &context, &flush)
    }

    /// Finishes what a context runs, an entry of this item.
    ///
    /// The only error is `WrongLane` (64): there is no such context, it runs nothing or an entry of another item, or it
    /// waits. After an error nothing is changed or counted.
    #[tactic(auto, using(crate::proofs::Contexts::by_finish))]
    pub fn finish_in<R: Wait>(
        &self,
        rt: &R,
        seat: &mut Seat<N, A>,
        context: Context,
        item: ItemId,
    ) -> Result<(), CallError>
        ensures took { GivesDone (λ answer.
            Took N.wiring N.rows seat.old (Finish context item) answer seat.new) result }
        ensures counted { OnOk result (HasContext N.wiring context.lane context.number
            × IsOnLane N.wiring context.lane item
            × (seat.new ≡ raised seat.old item FinishKind true)) }
        ensures refused { IfErr result (λ e. (e ≡ WrongLane) × (seat.new ≡ seat.old)) }
    {
        match self.written(rt, seat, FinishCall { context, item }) {
            Ok(_row) => Ok(()),
            Err(e) => Err(e),
        }
    }

    // ---- the rescuer

    /// Starts the next entry of a workqueue, for whoever serves it as its rescuer, and gives its item: the first
    /// pending one whose item no helper runs. It waits while there is none, unless nothing is pending and the runtime
    /// is closed. Then it gives nothing.
    ///
    /// The only error is `WrongLane` (64), if there is no such workqueue or its
    /// rescuer runs an entry. After an error nothing is changed.
    pub fn next<R: Wait>(&self, rt: &R, q: LaneId) -> Result<Next<N>, CallError>
        ensures took { GivesNext (context_of q 0)
            (λ answer. IsAnswered N.wiring N.rows (Start (context_of q 0)) answer) result }
        ensures started { IfOk result (λ next. (q < N.wiring.lanes)
            × IfSome next.item (λ item. IsOnLane N.wiring q item)) }
        ensures refused { IfErr result (λ e. e ≡ WrongLane) }
        ensures cause { OnErr result (WasWrongToStartIn N.wiring N.rows q 0) }
    {
        self.next_in(rt, Context { lane: q, number: 0 })
    }

    /// Makes what the rescuer of a workqueue runs wait for an item (`flush_work` in a work function), until none of its
    /// entries that were queued before the call is unfinished: true if one was when the wait began.
    ///
    /// The error is the first of these that holds: `WrongLane` (64), if there is no such workqueue; `HistoryFull`
    /// (60), if the seat is full; `WrongLane` (64), if the rescuer runs nothing or waits; `Undeclared` (62),
    /// if what it runs declares no flush of this item alone; `TooManyWaits` (63). Then nothing is changed or
    /// counted.
    #[tactic(auto, using(crate::proofs::WaitsRefused::of_rescuer))]
    pub fn wait_for<R: Wait>(
        &self,
        rt: &R,
        seat: &mut Seat<N, A>,
        q: LaneId,
        target: ItemId,
    ) -> Result<bool, CallError>
        ensures took { Waits N.wiring N.rows seat.old (context_of q 0) (flush_of false target) result seat.new }
        ensures counted { IfOk result (λ unfinished. (q < N.wiring.lanes)
            × (target < items N.wiring)
            × SeatHasRoom seat.old
            × (seat.new ≡ waited_for seat.old false target unfinished)) }
        ensures refused { IfErr result (λ e. RefusesWaitFor N.wiring seat.old q e
            × RefusedWaitFor N.wiring seat.old seat.new q false target e) }
        ensures waiter { q < N.wiring.lanes → SeatHasRoom seat.old → HasWaiter N.wiring q false target result }
    {
        let of_item = Flush {
            target,
            whole: false,
        };
        self.wait_in(rt, seat, Context { lane: q, number: 0 }, of_item)
    }

    /// Makes what the rescuer of a workqueue runs wait for the whole workqueue of an item
    /// (`flush_workqueue` in a work function), until none of the entries that were queued
    /// on it before the call is unfinished: true if one was when the wait began.
    ///
    /// The error is the first of these that holds: `WrongLane` (64), if there is no workqueue `q`; `HistoryFull`
    /// (60), if the seat is full; `WrongLane` (64), if the rescuer of `q` runs nothing or waits; `Undeclared`
    /// (62), if what it runs declares no flush of the whole workqueue of this very item; `TooManyWaits` (63). Then
    /// nothing is changed or counted.
    #[tactic(auto, using(crate::proofs::WaitsRefused::of_rescuer))]
    pub fn wait_all_for<R: Wait>(
        &self,
        rt: &R,
        seat: &mut Seat<N, A>,
        q: LaneId,
        target: ItemId,
    ) -> Result<bool, CallError>
        ensures took { Waits N.wiring N.rows seat.old (context_of q 0) (flush_of true target) result seat.new }
        ensures counted { IfOk result (λ unfinished. (q < N.wiring.lanes)
            × (target < items N.wiring)
            × SeatHasRoom seat.old
            × (seat.new ≡ waited_for seat.old true target unfinished)) }
        ensures refused { IfErr result (λ e. RefusesWaitFor N.wiring seat.old q e
            × RefusedWaitFor N.wiring seat.old seat.new q true target e) }
        ensures waiter { q < N.wiring.lanes → SeatHasRoom seat.old → HasWaiter N.wiring q true target result }
    {
        let of_lane = Flush {
            target,
            whole: true,
        };
        self.wait_in(rt, seat, Context { lane: q, number: 0 }, of_lane)
    }

    /// Finishes what the rescuer of a workqueue runs, an entry of this item.
    ///
    /// The only error is `WrongLane` (64): there is no such workqueue, its rescuer runs nothing or an entry of another
    /// item, or it waits. After an error nothing is changed or counted.
    pub fn finish_work<R: Wait>(
        &self,
        rt: &R,
        seat: &mut Seat<N, A>,
        q: LaneId,
        item: ItemId,
    ) -> Result<(), CallError>
        ensures took { GivesDone (λ answer.
            Took N.wiring N.rows seat.old (Finish (context_of q 0) item) answer seat.new) result }
        ensures counted { OnOk result (IsOnLane N.wiring q item × (seat.new ≡ raised seat.old item FinishKind true)) }
        ensures refused { IfErr result (λ e. (e ≡ WrongLane) × (seat.new ≡ seat.old)) }
    {
        self.finish_in(rt, seat, Context { lane: q, number: 0 }, item)
    }

    // ---- helpers

    /// Starts the next entry that a helper of a workqueue can start, and gives its item, as `next` does for the
    /// rescuer: the first pending one whose item neither the rescuer nor another helper runs.
    ///
    /// The only error is `WrongLane` (64), if the workqueue has no helper `h`, or
    /// that helper runs an entry. After an error nothing is changed.
    pub fn help_next<R: Wait>(&self, rt: &R, q: LaneId, h: u8) -> Result<Next<N>, CallError>
        ensures took { 0 < h → GivesNext (context_of q h)
            (λ answer. IsAnswered N.wiring N.rows (Start (context_of q h)) answer) result }
        ensures started { IfOk result (λ next. IsHelper N.wiring q h
            × IfSome next.item (λ item. IsOnLane N.wiring q item)) }
        ensures refused { IfErr result (λ e. e ≡ WrongLane) }
        ensures cause { 0 < h → OnErr result (WasWrongToStartIn N.wiring N.rows q h) }
    {
        if h == 0 {
            return Err(CallError::WrongLane);
        }
        self.next_in(rt, Context { lane: q, number: h })
    }

    /// Makes what a helper of a workqueue runs wait for an item, as `wait_for` does for the rescuer.
    ///
    /// The error is the first of these that holds: `WrongLane` (64), if the workqueue has no helper `h`;
    /// `HistoryFull` (60), if the seat is full; `WrongLane` (64), if the helper runs nothing or waits;
    /// `Undeclared` (62), if what it runs declares no flush of this item alone; `TooManyWaits` (63). Then nothing is
    /// changed or counted.
    #[tactic(auto, using(crate::proofs::WaitsRefused::of_helper))]
    pub fn help_wait_for<R: Wait>(
        &self,
        rt: &R,
        seat: &mut Seat<N, A>,
        q: LaneId,
        h: u8,
        target: ItemId,
    ) -> Result<bool, CallError>
        ensures took { 0 < h → Waits N.wiring N.rows seat.old (context_of q h) (flush_of false target) result seat.new }
        ensures counted { IfOk result (λ unfinished. IsHelper N.wiring q h
            × (target < items N.wiring)
            × SeatHasRoom seat.old
            × (seat.new ≡ waited_for seat.old false target unfinished)) }
        ensures refused { IfErr result (λ e. RefusesHelpWaitFor N.wiring seat.old q h e
            × RefusedHelpWaitFor N.wiring seat.old seat.new q h false target e) }
        ensures waiter { IsHelper N.wiring q h → SeatHasRoom seat.old → HasWaiter N.wiring q false target result }
    {
        if h == 0 {
            return Err(CallError::WrongLane);
        }
        let of_item = Flush {
            target,
            whole: false,
        };
        self.wait_in(rt, seat, Context { lane: q, number: h }, of_item)
    }

    /// Makes what a helper of a workqueue runs wait for the whole workqueue of an
    /// item, as `wait_all_for` does for the rescuer.
    ///
    /// The error is the first of these that holds: `WrongLane` (64), if the workqueue has no helper `h`;
    /// `HistoryFull` (60), if the seat is full; `WrongLane` (64), if the helper runs nothing or waits;
    /// `Undeclared` (62), if what it runs declares no flush of the whole workqueue of this very item; `TooManyWaits`
    /// (63). Then nothing is changed or counted.
    #[tactic(auto, using(crate::proofs::WaitsRefused::of_helper))]
    pub fn help_wait_all_for<R: Wait>(
        &self,
        rt: &R,
        seat: &mut Seat<N, A>,
        q: LaneId,
        h: u8,
        target: ItemId,
    ) -> Result<bool, CallError>
        ensures took { 0 < h → Waits N.wiring N.rows seat.old (context_of q h) (flush_of true target) result seat.new }
        ensures counted { IfOk result (λ unfinished. IsHelper N.wiring q h
            × (target < items N.wiring)
            × SeatHasRoom seat.old
            × (seat.new ≡ waited_for seat.old true target unfinished)) }
        ensures refused { IfErr result (λ e. RefusesHelpWaitFor N.wiring seat.old q h e
            × RefusedHelpWaitFor N.wiring seat.old seat.new q h true target e) }
        ensures waiter { IsHelper N.wiring q h → SeatHasRoom seat.old → HasWaiter N.wiring q true target result }
    {
        if h == 0 {
            return Err(CallError::WrongLane);
        }
        let of_lane = Flush {
            target,
            whole: true,
        };
        self.wait_in(rt, seat, Context { lane: q, number: h }, of_lane)
    }

    /// Finishes what a helper of a workqueue runs, an entry of this item.
    ///
    /// The only error is `WrongLane` (64): the workqueue has no helper `h`, that helper runs nothing or an entry of
    /// another item, or it waits. After an error nothing is changed or counted.
    pub fn help_finish_work<R: Wait>(
        &self,
        rt: &R,
        seat: &mut Seat<N, A>,
        q: LaneId,
        h: u8,
        item: ItemId,
    ) -> Result<(), CallError>
        ensures took { 0 < h →
            GivesDone (λ answer. Took N.wiring N.rows seat.old (Finish (context_of q h) item) answer seat.new) result }
        ensures counted { OnOk result (IsHelper N.wiring q h
            × IsOnLane N.wiring q item
            × (seat.new ≡ raised seat.old item FinishKind true)) }
        ensures refused { IfErr result (λ e. (e ≡ WrongLane) × (seat.new ≡ seat.old)) }
    {
        if h == 0 {
            return Err(CallError::WrongLane);
        }
        self.finish_in(rt, seat, Context { lane: q, number: h }, item)
    }
}
