//! What a book answers to a call, one function for each.
//!
//! All of it is said by one relation, `Answers` of `specs/Calls`. A call takes the time of the step that it makes, and
//! no memory. The named calls of `book` are made of `answer`; whoever calls under a lock makes those of `kinds`, which
//! are answered by the same functions.

ghost use Rattle.std.specs.Prelude.{◌≡◌, ◌<◌, ◌↔◌, IsTrue, IfErr, IfSome, IfNone, OnOk};
ghost use Rattle.wq_core.specs.declared.entry.Waiting.{Waiting};
ghost use Rattle.wq_core.specs.Wiring.{items};
ghost use Rattle.wq_rows.specs.declared.event.Event.TheVariants.{Cancel as CancelEvent};
ghost use Rattle.wq_history.specs.declared.call.Call.TheVariants.{Queue, Cancel, Ask, Told, CancelSync, Start, Wait};
ghost use Rattle.wq_history.specs.declared.call.Call.TheVariants.{Over, Finish, Close, Drain};
ghost use Rattle.wq_history.specs.Events.{ask_event};
ghost use Rattle.wq_history.specs.History.{IsThere};
ghost use Rattle.wq_history.specs.Book.{IsWaitingBy, WaitsFor};
ghost use Rattle.wq_history.specs.Waits.{EndOf, IsMet};
ghost use Rattle.wq_history.specs.Calls.{RefusesToAsk, IsWritten, Answers};

use crate::asking::Subject;
use crate::book::Book;
use crate::call::{Call, Flush, Reply};
use crate::fault::CallError;
use crate::waits::{is_item, is_lane};
use std::alloc::Allocator;
use wq_core::{Context, HelpStep, Step, Waiting};
use wq_groups::LaneId;
use wq_items::ItemId;
use wq_rows::{Event, Row};

impl<A: Allocator> Book<A> {
    /// Answers a call: by the row or the two rows that it wrote, by `Done` or `NotYet` if there is none to write, or
    /// by a refusal. Only a row that was written, and `Close`, change the book.
    ///
    /// An ask that is told is named by its subject and its mark alone, which anybody may make up: whoever uses `answer`
    /// tells each ask once, with the mark that its own row has. `told` and
    /// `told_lane` take an ask that can't be copied.
    pub fn answer(&mut self, call: Call) -> Result<Reply, CallError>
        ensures { Answers self.old call result self.new }
    {
        match call {
            Call::Queue(item) => self.answer_queue(item),
            Call::Cancel(item) => self.answer_cancel(item),
            Call::Ask(subject) => self.answer_ask(subject),
            Call::Told(subject, mark) => self.answer_told(subject, mark),
            Call::CancelSync(item) => self.answer_cancel_sync(item),
            Call::Start(context) => self.answer_start(context),
            Call::Wait(context, flush) => self.answer_wait(context, flush),
            Call::Over(context, flush) => self.answer_over(context, flush),
            Call::Finish(context, item) => self.answer_finish(context, item),
            Call::Close => self.answer_close(),
            Call::Drain => self.answer_drain(),
        }
    }

    /// Queues an item.
    pub(crate) fn answer_queue(&mut self, item: ItemId) -> Result<Reply, CallError>
        ensures { Answers self.old (Queue item) result self.new }
    {
        if !is_item(&self.core, item) {
            return Err(CallError::NoItem);
        }
        if self.closed {
            return Err(CallError::Closed);
        }
        if self.core.is_pending(item) {
            if self.lacks(1) {
                return Err(CallError::HistoryFull);
            }
            return Ok(Reply::Wrote(self.note(Event::Queue(item), false, 0)));
        }
        let waits = self.core.waits(item).len() as u32;
        if self.lacks(3 + 2 * waits) {
            return Err(CallError::HistoryFull);
        }
        let row = self.make(&Step::Queue(item), Event::Queue(item), true);
        Ok(Reply::Wrote(row))
    }

    /// Removes the pending entry of an item.
    pub(crate) fn answer_cancel(&mut self, item: ItemId) -> Result<Reply, CallError>
        ensures { Answers self.old (Cancel item) result self.new }
    {
        if !is_item(&self.core, item) {
            return Err(CallError::NoItem);
        }
        match self.write_cancel(item) {
            Some(row) => Ok(Reply::Wrote(row)),
            None => Err(CallError::HistoryFull),
        }
    }

    /// Writes the row of a cancellation, if there are enough rows for it.
    fn write_cancel(&mut self, item: ItemId) -> Option<Row>
        requires { item < items self.old.wiring }
        ensures { IsWritten self.old (CancelEvent item) result self.new }
    {
        if self.core.is_pending(item) {
            let row = self.make(&Step::Cancel(item), Event::Cancel(item), true);
            return Some(row);
        }
        if self.lacks(1) {
            return None;
        }
        Some(self.note(Event::Cancel(item), false, 0))
    }

    /// Asks about an item or a lane.
    pub(crate) fn answer_ask(&mut self, subject: Subject) -> Result<Reply, CallError>
        ensures { Answers self.old (Ask subject) result self.new }
    {
        self.find(&subject)?;
        match self.write_ask(&subject) {
            Some(row) => Ok(Reply::Wrote(row)),
            None => Err(CallError::HistoryFull),
        }
    }

    /// That there is such an item, or such a lane.
    fn find(&self, subject: &Subject) -> Result<(), CallError>
        ensures there { OnOk result (IsThere self.now.wiring subject.now) }
        ensures missing { IfErr result (λ e. RefusesToAsk self.now subject.now e) }
    {
        match *subject {
            Subject::Item(item) => {
                if is_item(&self.core, item) {
                    Ok(())
                } else {
                    Err(CallError::NoItem)
                }
            }
            Subject::Lane(q) => {
                if is_lane(&self.core, q) {
                    Ok(())
                } else {
                    Err(CallError::WrongLane)
                }
            }
        }
    }

    /// Writes the row of an ask, if there are enough rows for it.
    #[inline(always)]
    fn write_ask(&mut self, subject: &Subject) -> Option<Row>
        requires { IsThere self.old.wiring subject.now }
        ensures { IsWritten self.old (ask_event subject.now) result self.new }
    {
        let mark = self.core.next_number();
        if self.is_unfinished(subject) {
            if self.lacks(2) {
                return None;
            }
            return Some(self.note(subject.ask(), true, mark));
        }
        if self.lacks(1) {
            return None;
        }
        Some(self.note(subject.ask(), false, mark))
    }

    /// Tells a caller who asked about an item or a lane, with this mark, whether its wait is over.
    pub(crate) fn answer_told(&mut self, subject: Subject, mark: u32) -> Result<Reply, CallError>
        ensures { Answers self.old (Told subject mark) result self.new }
    {
        if self.asks_waiting(&subject) == 0 {
            return Err(CallError::NotAsked);
        }
        if self.unfinished_below(&subject, mark) {
            return Ok(Reply::NotYet);
        }
        Ok(Reply::Wrote(self.note(subject.told(), true, mark)))
    }

    /// Asks about an item, and then removes its pending entry.
    pub(crate) fn answer_cancel_sync(&mut self, item: ItemId) -> Result<Reply, CallError>
        ensures { Answers self.old (CancelSync item) result self.new }
    {
        if !is_item(&self.core, item) {
            return Err(CallError::NoItem);
        }
        if self.lacks(3) {
            return Err(CallError::HistoryFull);
        }
        let Some(asked) = self.write_ask(&Subject::Item(item)) else {
            unreachable!()
        };
        let Some(taken) = self.write_cancel(item) else {
            unreachable!()
        };
        Ok(Reply::WroteTwo(asked, taken))
    }

    /// Whether a lane has ended: the book is closed, and nothing is pending on it. So no context of it has anything
    /// more to do.
    pub fn has_ended(&self, q: LaneId) -> bool
        ensures { IsTrue result ↔ IsMet self.now (EndOf q) }
    {
        self.closed && !self.is_pending_on(q)
    }

    /// Starts the next entry of a lane in one of its contexts.
    pub(crate) fn answer_start(&mut self, context: Context) -> Result<Reply, CallError>
        ensures { Answers self.old (Start context) result self.new }
    {
        let q = context.lane;
        if !self.is_idle_context(&context) {
            return Err(CallError::WrongLane);
        }
        let Some(next) = self.next_on(q) else {
            if self.has_ended(q) {
                return Ok(Reply::Done);
            }
            return Ok(Reply::NotYet);
        };
        let row = self.make_in(&context, &HelpStep::Start(next.item), true);
        Ok(Reply::Wrote(row))
    }

    /// Makes what a context runs begin to wait.
    pub(crate) fn answer_wait(&mut self, context: Context, flush: Flush) -> Result<Reply, CallError>
        ensures { Answers self.old (Wait context flush) result self.new }
    {
        let whole = flush.whole;
        let target = flush.target;
        let Some(running) = self.awake_in(&context) else {
            return Err(CallError::WrongLane);
        };
        let item = running.entry.item;
        let made = running.made;
        if !self.core.declares(item, whole, target) {
            return Err(CallError::Undeclared);
        }
        if made as usize >= self.core.waits(item).len() {
            return Err(CallError::TooManyWaits);
        }
        let unfinished = self.is_unfinished(&self.subject_of(whole, target));
        let deed = HelpStep::wait_of(whole, target);
        let row = self.make_in(&context, &deed, unfinished);
        Ok(Reply::Wrote(row))
    }

    /// The wait of what a context runs, if it is of this kind and for this target.
    fn wait_for(&self, context: &Context, flush: &Flush) -> Option<Waiting>
        ensures some { IfSome result (λ f. IsWaitingBy self.now context.now.lane context.now.number flush.now.whole f
            × (f.target ≡ flush.now.target)) }
        ensures none { IfNone result
            (¬ WaitsFor self.now context.now.lane context.now.number flush.now.whole flush.now.target) }
    {
        let Some(waits) = self.wait_of(context) else {
            return None;
        };
        if waits.whole != flush.whole || waits.target != flush.target {
            return None;
        }
        Some(waits)
    }

    /// Lets what a context runs go on, if it waits so and that wait is over.
    pub(crate) fn answer_over(&mut self, context: Context, flush: Flush) -> Result<Reply, CallError>
        ensures { Answers self.old (Over context flush) result self.new }
    {
        self.legal();
        let Some(waits) = self.wait_for(&context, &flush) else {
            return Err(CallError::WrongLane);
        };
        let subject = self.subject_of(waits.whole, waits.target);
        if self.unfinished_below(&subject, waits.mark) {
            return Ok(Reply::NotYet);
        }
        let deed = HelpStep::over_of(waits.whole, waits.target);
        let row = self.make_in(&context, &deed, true);
        Ok(Reply::Wrote(row))
    }

    /// Finishes what a context runs, an entry of this item.
    pub(crate) fn answer_finish(
        &mut self,
        context: Context,
        item: ItemId,
    ) -> Result<Reply, CallError>
        ensures { Answers self.old (Finish context item) result self.new }
    {
        let Some(running) = self.awake_in(&context) else {
            return Err(CallError::WrongLane);
        };
        if running.entry.item != item {
            return Err(CallError::WrongLane);
        }
        let row = self.make_in(&context, &HelpStep::Finish(item), true);
        Ok(Reply::Wrote(row))
    }
    /// Closes the book.
    pub(crate) fn answer_close(&mut self) -> Result<Reply, CallError>
        ensures { Answers self.old Close result self.new }
    {
        self.close();
        Ok(Reply::Done)
    }

    /// Looks whether nothing is unfinished.
    pub(crate) fn answer_drain(&mut self) -> Result<Reply, CallError>
        ensures { Answers self.old Drain result self.new }
    {
        if self.all_done() {
            Ok(Reply::Done)
        } else {
            Ok(Reply::NotYet)
        }
    }
}
