//! What the body of a work item may do while it runs: queue, cancel and flush.
//!
//! A body runs outside the lock, in a context of its workqueue, which is its rescuer or a helper. What it does counts
//! in the seat of that context. It may flush only what its item declares, items and whole workqueues, and no more often
//! (`flush_work` and `flush_workqueue` in a work function, Documentation/core-api/workqueue.rst, "Guidelines"). Apart
//! from what it waits for, a call takes the time of the runtime's own call.

ghost use Rattle.std.specs.Prelude.{◌≡◌, ◌<◌, true, false, Some, IfOk, IfErr};
ghost use Rattle.wq_core.specs.Wiring.{items, HasContext};
ghost use Rattle.wq_counts.specs.declared.kind.Kind.TheVariants.{Queue, Cancel};
ghost use Rattle.wq_counts.specs.Counting.{HasCountsOf, raised};
ghost use Rattle.wq_history.specs.declared.call.Call.TheVariants.{Queue as QueueCall, Cancel as CancelCall};
ghost use Rattle.wq_held.specs.Locked.{slots, SeatHasRoom};
ghost use Rattle.wq_api.specs.Refusals.{RefusesCancelWork, RefusesWaitIn};
ghost use Rattle.wq_api.specs.WaitingCalls.{waited_for, RefusedWaitIn, HasWaiter};
ghost use Rattle.wq_api.specs.Taking.{context_of, flush_of, ComesTo, GivesYes, Waits};
ghost use Rattle.wq_rescuer.specs.Executing.{SameFinished, RefusesQueueByBody};

use std::alloc::Allocator;
use std::sync::Wait;
use wq_api::{CallError, Context, Naming, Next, Seat, WqRuntime};
use wq_history::Flush;
use wq_items::ItemId;

/// One execution of an item, as its body sees it.
#[derive(Drop)]
pub struct Work<'a, N: Naming, A: Allocator> {
    runtime: &'a WqRuntime<N, A>,
    seat: &'a mut Seat<N, A>,
    context: Context,
    item: ItemId,
    /// What its context was given to start: only a start hands that out, and one execution uses it up.
    started: Next<N>,
    ghost of_entry: { started ≡ record { context = context; item = Some item } },
    /// What the latest flush, of an item or of a workqueue, answered. Contracts alone look at it.
    flushed: Result<bool, CallError>,
}

impl<'a, N: Naming, A: Allocator> Work<'a, N, A> {
    /// An execution of an item that a context has started. It counts in this seat.
    pub(crate) fn new(
        runtime: &'a WqRuntime<N, A>,
        seat: &'a mut Seat<N, A>,
        context: Context,
        item: ItemId,
        started: Next<N>,
    ) -> Self
        requires started { started ≡ record { context = context; item = Some item } }
        ensures same_seat { result.seat.ghost_name ≡ seat.entry.ghost_name }
        ensures counts { result.seat.now ≡ seat.old }
        ensures context { result.context ≡ context }
        ensures item { result.item ≡ item }
    {
        Work {
            runtime,
            seat,
            context,
            item,
            started,
            flushed: Ok(false),
        }
    }

    /// States what holds of the counts of its seat: there are 22 for each item, or
    /// for each workqueue if there are more of those.
    pub fn holds(&self)
        ensures { HasCountsOf (slots N.wiring) self.now.seat.now }
    {
        self.seat.holds();
    }

    /// The item that is running.
    pub fn item(&self) -> ItemId
        ensures { result ≡ self.now.item }
    {
        self.item
    }

    /// Queues an item: true if it wasn't pending, false if it was.
    ///
    /// The error is the first of these that holds: `NoItem` (66); `HistoryFull` (60), if the seat is full; `Closed`
    /// (61); `HistoryFull` (60), if fewer rows are free than it needs: 1 if the item is pending, else 3, and 2
    /// more for each flush that it declares. After an error nothing is changed or counted.
    pub fn queue<R: Wait>(&mut self, rt: &R, item: ItemId) -> Result<bool, CallError>
        ensures took { GivesYes
            (λ answer. ComesTo N.wiring N.rows self.old.seat.now (QueueCall item) answer self.new.seat.now) result }
        ensures counted { IfOk result (λ accepted. (item < items N.wiring)
            × SeatHasRoom self.old.seat.now
            × (self.new.seat.now ≡ raised self.old.seat.now item Queue accepted)) }
        ensures refused { IfErr result (λ e. RefusesQueueByBody N.wiring self.old.seat.now item e
            × (self.new.seat.now ≡ self.old.seat.now)) }
        ensures finished { SameFinished self.old.seat.now self.new.seat.now }
        ensures same_seat { self.new.seat.ghost_name ≡ self.old.seat.ghost_name }
        ensures context { self.new.context ≡ self.old.context }
        ensures item { self.new.item ≡ self.old.item }
    {
        self.runtime.queue_item(rt, self.seat, item)
    }

    /// Removes the pending entry of an item: true if one was pending.
    ///
    /// The error is `NoItem` (66), or else `HistoryFull` (60), if the seat is full, or nothing is pending and no row
    /// is free. After an error nothing is changed or counted.
    pub fn cancel<R: Wait>(&mut self, rt: &R, item: ItemId) -> Result<bool, CallError>
        ensures took { GivesYes
            (λ answer. ComesTo N.wiring N.rows self.old.seat.now (CancelCall item) answer self.new.seat.now) result }
        ensures counted { IfOk result (λ taken. (item < items N.wiring)
            × SeatHasRoom self.old.seat.now
            × (self.new.seat.now ≡ raised self.old.seat.now item Cancel taken)) }
        ensures refused { IfErr result (λ e. RefusesCancelWork N.wiring item e
            × (self.new.seat.now ≡ self.old.seat.now)) }
        ensures finished { SameFinished self.old.seat.now self.new.seat.now }
        ensures same_seat { self.new.seat.ghost_name ≡ self.old.seat.ghost_name }
        ensures context { self.new.context ≡ self.old.context }
        ensures item { self.new.item ≡ self.old.item }
    {
        self.runtime.cancel_work(rt, self.seat, item)
    }

    /// Waits until none of an item's entries that were queued before the call is
    /// unfinished: true if one was when the wait began.
    ///
    /// The error is the first of these that holds: `HistoryFull` (60), if the seat is full; `Undeclared` (62), if
    /// the running item declares no flush of this one alone; `TooManyWaits` (63), if it has made as many as it
    /// declares, of both kinds. Then nothing is changed or counted. `WrongLane` (64) comes only if another caller
    /// drives the same context.
    pub fn flush<R: Wait>(&mut self, rt: &R, target: ItemId) -> Result<bool, CallError>
        ensures counted { IfOk result (λ unfinished. HasContext N.wiring self.old.context.lane self.old.context.number
            × (target < items N.wiring)
            × SeatHasRoom self.old.seat.now
            × (self.new.seat.now ≡ waited_for self.old.seat.now false target unfinished)) }
        ensures refused { IfErr result (λ e.
            RefusesWaitIn N.wiring self.old.seat.now self.old.context.lane self.old.context.number e
            × RefusedWaitIn N.wiring self.old.seat.now self.new.seat.now self.old.context.lane self.old.context.number
            false target e) }
        ensures waiter { HasContext N.wiring self.old.context.lane self.old.context.number
            → SeatHasRoom self.old.seat.now → HasWaiter N.wiring self.old.context.lane false target result }
        ensures took { Waits N.wiring N.rows self.old.seat.now
            (context_of self.old.context.lane self.old.context.number)
            (flush_of false target) result self.new.seat.now }
        ensures finished { SameFinished self.old.seat.now self.new.seat.now }
        ensures same_seat { self.new.seat.ghost_name ≡ self.old.seat.ghost_name }
        ensures context { self.new.context ≡ self.old.context }
        ensures item { self.new.item ≡ self.old.item }
        ensures flushed { self.new.flushed ≡ result }
    {
        let of_item = Flush {
            target,
            whole: false,
        };
        self.flushed = self.runtime.wait_in(rt, self.seat, self.context, of_item);
        self.flushed
    }

    /// Waits until none of the entries that were queued before the call on an item's workqueue is unfinished: true
    /// if one was when the wait began.
    ///
    /// The error is the first of these that holds: `HistoryFull` (60), if the seat is full; `Undeclared` (62), if
    /// the running item declares no flush of the whole workqueue of this very item; `TooManyWaits` (63), if it has
    /// made as many flushes as it declares, of both kinds. Then nothing is changed or counted. `WrongLane` (64) comes
    /// only if another caller drives the same context as this body.
    pub fn flush_wq<R: Wait>(&mut self, rt: &R, target: ItemId) -> Result<bool, CallError>
        ensures counted { IfOk result (λ unfinished. HasContext N.wiring self.old.context.lane self.old.context.number
            × (target < items N.wiring)
            × SeatHasRoom self.old.seat.now
            × (self.new.seat.now ≡ waited_for self.old.seat.now true target unfinished)) }
        ensures refused { IfErr result (λ e.
            RefusesWaitIn N.wiring self.old.seat.now self.old.context.lane self.old.context.number e
            × RefusedWaitIn N.wiring self.old.seat.now self.new.seat.now self.old.context.lane self.old.context.number
            true target e) }
        ensures waiter { HasContext N.wiring self.old.context.lane self.old.context.number
            → SeatHasRoom self.old.seat.now → HasWaiter N.wiring self.old.context.lane true target result }
        ensures took { Waits N.wiring N.rows self.old.seat.now
            (context_of self.old.context.lane self.old.context.number) (flush_of true target) result self.new.seat.now }
        ensures finished { SameFinished self.old.seat.now self.new.seat.now }
        ensures same_seat { self.new.seat.ghost_name ≡ self.old.seat.ghost_name }
        ensures context { self.new.context ≡ self.old.context }
        ensures item { self.new.item ≡ self.old.item }
        ensures flushed { self.new.flushed ≡ result }
    {
        let of_lane = Flush {
            target,
            whole: true,
        };
        self.flushed = self.runtime.wait_in(rt, self.seat, self.context, of_lane);
        self.flushed
    }
}
