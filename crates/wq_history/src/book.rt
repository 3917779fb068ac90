//! The book: it answers events, and writes one row or none for each.
//!
//! A book holds a machine, which may have helpers, and the history of all that happened to it. Its
//! rules are those of "Histories" in the specs of this crate; the rows that it keeps free are those
//! of "Reserve". An event takes the time of the step that it makes, and nothing that grows with the
//! number of rows, of lanes or of asks. An ask about a lane takes constant time. Only `new` takes
//! memory: 12 bytes for each row, and two counts for each item or each lane, whichever are more.

ghost use Rattle.std.specs.Prelude.{◌≡◌, ℕ, ◌+◌, ◌<◌, ◌≤◌, ◌↔◌, [], Some, None, true, false, IfOk, IfErr, OnOk, IfSome};
ghost use Rattle.std.specs.Prelude.{IfNone, IsTrue, MatchBool};
ghost use Rattle.std.specs.List.{count_by};
ghost use Rattle.wq_core.specs.declared.entry.Running.{Running};
ghost use Rattle.wq_core.specs.declared.entry.Waiting.{Waiting};
ghost use Rattle.wq_core.specs.Wiring.{items, lane_of, helpers_of, HasContext};
ghost use Rattle.wq_core.specs.State.{empty_state, lane_at, run_by, next_of, HasPending, HasUnfinished};
ghost use Rattle.wq_core.specs.Rules.{Lawful, Gives, step_in};
ghost use Rattle.wq_rows.specs.declared.event.Event.TheVariants.{Queue, Cancel, Wait, WaitAll, Finish, Ask as AskEvent};
ghost use Rattle.wq_rows.specs.Packing.{packed_rows};
ghost use Rattle.wq_rows.specs.Stored.{max_rows};
ghost use Rattle.wq_history.specs.declared.asking.Subject.{Subject as SubjectValue};
ghost use Rattle.wq_history.specs.Events.{step_of, event_in, wait_event, finish_event};
ghost use Rattle.wq_history.specs.Events.{begins_to_wait, ends_a_wait};
ghost use Rattle.wq_history.specs.History.{asks_waiting, all_asks_waiting, MayCome, Says, SaysUnfinishedOf};
ghost use Rattle.wq_history.specs.Reserve.{rows_needed};
ghost use Rattle.wq_history.specs.Book.{BookView, state, free, IsBook, AppendsOne, LaneRuns, IsAwake, IsWaiting};
ghost use Rattle.wq_history.specs.Book.{IsWaitingBy, HelperRuns, HelperWaitsBy, HasPendingOn, IsNotWaiting, IsNotAwake};
ghost use Rattle.wq_history.specs.Book.{IsWrongToStart, RefusesNew, RefusesItem, RefusesLane, RefusesHelp};
ghost use Rattle.wq_history.specs.Answers.{AnswersAsk, AnswersTold, AnswersAskLane, AnswersToldLane, AnswersStart};
ghost use Rattle.wq_history.specs.Answers.{AnswersOver};
ghost use Rattle.wq_history.specs.Waits.{AllDone, IsMet};
ghost use Rattle.wq_history.specs.Calls.{IsUnfinishedBelow, AlwaysWrites, Writes, AnswersAs, RefusesQueue};
ghost use Rattle.wq_history.specs.Calls.{RefusesAskLane, RefusesWait, subject_of};

use crate::ask_counts::AskCounts;
use crate::asking::{Ask, Asked, LaneAsk, LaneAsked, LaneTold, Subject, Told};
use crate::call::{Call, Flush, Reply};
use crate::fault::BookError;
use crate::waits::{event_of, is_busy, is_item};
use std::alloc::Allocator;
use std::marker::Model;
use wq_core::{Context, Core, Entry, HelpStep, Running, Step, Waiting};
use wq_groups::LaneId;
use wq_items::ItemId;
use wq_rows::{Event, History, MAX_ROWS, Row, Rows};

/// The book. Contracts see the wiring of its machine, its rows, how many rows there is room for, and whether it is
/// closed. Its state is the replay of its rows.
#[derive(Drop)]
pub struct Book<A: Allocator> {
    pub(crate) core: Core<A>,
    history: History<A>,
    asks: AskCounts<A>,
    work: u64,
    pub(crate) closed: bool,
}

impl<A: Allocator> Model for Book<A> {
    ghost use Rattle.wq_history.specs.Book.{BookView};
    ghost use Rattle.wq_history.specs.Counts.{HoldsBook};

    ghost Value = { BookView };

    ghost view = { λ b.
        record { wiring = b.core.wiring; rows = b.history.rows; room = b.history.room; closed = b.closed } };

    ghost invariant = { λ b. HoldsBook b.core b.history.rows b.history.room b.asks b.work };
}

impl<A: Allocator + Copy> Book<A> {
    /// Makes the book of a machine on which nothing has happened, with room for this
    /// many rows. Its lanes have the helpers of the machine.
    ///
    /// The error is `TooManyRows` (68) exactly if there are more than 16,777,216 rows. Otherwise it is out of memory
    /// (20), which can't occur if there are no rows, no items and no lanes.
    pub fn new(alloc: A, core: Core<A>, rows: u32) -> Result<Self, BookError>
        requires { core.state ≡ empty_state core.wiring }
        ensures book { IfOk result (λ b. b ≡ record { wiring = core.wiring; rows = []; room = rows; closed = false }) }
        ensures limit { IfOk result (λ b. rows ≤ max_rows) }
        ensures refused { IfErr result (λ e. RefusesNew core.wiring rows e) }
    {
        if rows > MAX_ROWS {
            return Err(BookError::TooManyRows);
        }
        let asks = AskCounts::new(alloc, core.items(), core.lanes())?;
        let history = History::new(alloc, rows)?;
        Ok(Book {
            core,
            history,
            asks,
            work: 0,
            closed: false,
        })
    }
}

impl<A: Allocator> Book<A> {
    /// States what holds of every book: its rows are a legal history, and rows are kept free for what is to come.
    pub fn legal(&self)
        ensures { IsBook self.now }
    {
        let _ = &self.core;
    }

    /// Makes a step, and appends the row of its event.
    #[inline(always)]
    pub(crate) fn make(&mut self, step: &Step, event: Event, yes: bool) -> Row
        requires lawful { Lawful self.old.wiring (state self.old) step.now }
        requires event { step_of event yes ≡ Some step.now }
        requires may { (n : ℕ) → Gives (state self.old) step.now n → MayCome self.old.wiring self.old.rows event yes n }
        requires room { rows_needed self.old.wiring event yes ≤ free self.old }
        ensures event { result.event ≡ event }
        ensures writes { Writes self.old result self.new }
    {
        let work = self.core.work_after(step, self.work);
        let Ok(number) = self.core.step(*step) else {
            unreachable!()
        };
        self.work = work;
        let row = Row { event, yes, number };
        self.history.push(&row);
        row
    }

    /// Makes a step of a context, and appends the row of its event.
    #[inline(always)]
    pub(crate) fn make_in(&mut self, context: &Context, deed: &HelpStep, yes: bool) -> Row
        requires lawful { Lawful self.old.wiring (state self.old)
            (step_in context.now.lane context.now.number deed.now) }
        requires says { Says self.old.wiring (state self.old) deed.now yes }
        ensures event { result.event ≡ event_in context.now.lane context.now.number deed.now }
        ensures writes { Writes self.old result self.new }
    {
        let step = Step::of(*context, *deed);
        let event = event_of(context, deed);
        self.make(&step, event, yes)
    }

    /// Appends the row of an event that makes no step: nothing comes of it, or a caller begins to wait, or is told that
    /// its wait is over.
    #[inline(always)]
    pub(crate) fn note(&mut self, event: Event, yes: bool, number: u32) -> Row
        requires event { step_of event yes ≡ None }
        requires may { MayCome self.old.wiring self.old.rows event yes number }
        requires room { rows_needed self.old.wiring event yes ≤ free self.old }
        ensures event { result.event ≡ event }
        ensures number { result.number ≡ number }
        ensures writes { Writes self.old result self.new }
    {
        self.asks.count(&event, yes);
        let row = Row { event, yes, number };
        self.history.push(&row);
        row
    }

    /// Whether fewer than this many rows are free.
    pub(crate) fn lacks(&self, rows: u32) -> bool
        ensures { IsTrue result ↔ (free self.now < rows) }
    {
        self.free_rows() < rows
    }

    /// How many asks about an item or a lane are waiting.
    pub(crate) fn asks_waiting(&self, subject: &Subject) -> u32
        ensures { result ≡ asks_waiting subject.now self.now.rows }
    {
        self.asks.of(*subject)
    }

    /// Whether an unfinished entry of an item or a lane has a number below the mark.
    pub(crate) fn unfinished_below(&self, subject: &Subject, mark: u32) -> bool
        ensures { IsTrue result ↔ IsUnfinishedBelow (state self.now) subject.now mark }
    {
        match *subject {
            Subject::Item(item) => self.core.unfinished_below(item, mark),
            Subject::Lane(q) => self.core.lane_unfinished_below(q, mark),
        }
    }

    /// Whether an item or a lane has an unfinished entry.
    pub(crate) fn is_unfinished(&self, subject: &Subject) -> bool
        ensures { SaysUnfinishedOf (state self.now) subject.now result }
    {
        match *subject {
            Subject::Item(item) => self.core.has_unfinished(item),
            Subject::Lane(q) => is_busy(&self.core, q),
        }
    }

    /// What a wait for an item, which exists, or for its whole lane, is for.
    pub fn subject_of(&self, whole: bool, target: ItemId) -> Subject
        requires { target < items self.now.wiring }
        ensures { result ≡ subject_of self.now.wiring whole target }
    {
        if whole {
            Subject::Lane(self.core.lane_of(target))
        } else {
            Subject::Item(target)
        }
    }

    /// What a context runs; nothing if there is no such lane or no such context.
    fn entry_in(&self, context: &Context) -> Option<Running>
        ensures running { result ≡ run_by (lane_at (state self.now) context.now.lane) context.now.number }
        ensures known { IfSome result (λ r. (r.entry.item < items self.now.wiring)
            × (lane_of self.now.wiring r.entry.item ≡ context.now.lane)
            × HasContext self.now.wiring context.now.lane context.now.number) }
    {
        self.core.running_in(*context)
    }

    /// The first pending entry of a lane whose item isn't running; none if there is no such entry, or no such lane.
    pub(crate) fn next_on(&self, q: LaneId) -> Option<Entry>
        ensures next { result ≡ next_of (lane_at (state self.now) q) }
    {
        self.core.next_on(q)
    }

    /// Whether there is such a context, and it runs nothing.
    pub(crate) fn is_idle_context(&self, context: &Context) -> bool
        ensures { MatchBool result
            (HasContext self.now.wiring context.now.lane context.now.number
            × (run_by (lane_at (state self.now) context.now.lane) context.now.number ≡ None))
            (IsWrongToStart self.now context.now.lane context.now.number) }
    {
        self.core.has_context(*context) && self.entry_in(context).is_none()
    }

    /// What a context runs, if it doesn't wait.
    pub(crate) fn awake_in(&self, context: &Context) -> Option<Running>
        ensures some { IfSome result (λ r. IsAwake self.now context.now.lane context.now.number r) }
        ensures known { IfSome result (λ r. (r.entry.item < items self.now.wiring)
            × HasContext self.now.wiring context.now.lane context.now.number) }
        ensures none { IfNone result (IsNotAwake self.now context.now.lane context.now.number) }
    {
        let running = self.entry_in(context)?;
        if running.waiting.is_some() {
            return None;
        }
        Some(running)
    }

    /// What the entry that a context runs waits for.
    pub(crate) fn wait_of(&self, context: &Context) -> Option<Waiting>
        ensures some { IfSome result (λ f. IsWaiting self.now context.now.lane context.now.number f) }
        ensures none { IfNone result (IsNotWaiting self.now context.now.lane context.now.number) }
    {
        let running = self.entry_in(context)?;
        running.waiting
    }

    /// How many rows are free: neither written, nor kept for steps and callers that are still to come.
    pub fn free_rows(&self) -> u32
        ensures { result ≡ free self.now }
    {
        let kept = self.work + u64::from(self.asks.all());
        self.history.room() - self.history.len() - kept as u32
    }

    /// Makes a call that isn't refused but with a row, which it gives.
    #[tactic(auto, using(crate::proofs::Answered::row_of_book, crate::proofs::Answered::refused_as))]
    fn row(&mut self, call: Call) -> Result<Row, BookError>
        requires { AlwaysWrites call }
        ensures { AnswersAs self.old call result self.new }
    {
        match self.answer(call) {
            Ok(Reply::Wrote(row)) => Ok(row),
            Ok(Reply::WroteTwo(_, _)) => unreachable!(),
            Ok(Reply::Done) => unreachable!(),
            Ok(Reply::NotYet) => unreachable!(),
            Err(e) => Err(BookError::of(e)),
        }
    }

    /// Queues an item: true if it is accepted, false if it is pending already.
    ///
    /// The error is the first of these that holds: `NoItem` (66), `Closed` (61),
    /// `HistoryFull` (60). After an error nothing is changed.
    #[tactic(auto, using(crate::proofs::CallRows::appends_queue))]
    pub fn queue(&mut self, item: ItemId) -> Result<bool, BookError>
        ensures row { IfOk result (λ accepted. AppendsOne self.old self.new (Queue item) accepted) }
        ensures open { IfOk result (λ _. self.old.closed ≡ false) }
        ensures refused { IfErr result (λ e. RefusesQueue self.old item e × (self.new ≡ self.old)) }
    {
        let row = self.row(Call::Queue(item))?;
        Ok(row.yes)
    }

    /// Removes the pending entry of an item: true if there is one.
    ///
    /// The error is `NoItem` (66), or else `HistoryFull` (60), which occurs only
    /// if none is pending. After an error nothing is changed.
    #[tactic(auto, using(crate::proofs::Answered::cancel_refused, crate::proofs::CallRows::appends_cancel))]
    pub fn cancel(&mut self, item: ItemId) -> Result<bool, BookError>
        ensures row { IfOk result (λ taken. AppendsOne self.old self.new (Cancel item) taken) }
        ensures refused { IfErr result (λ e. RefusesItem self.old item Cancel e × (self.new ≡ self.old)) }
    {
        let row = self.row(Call::Cancel(item))?;
        Ok(row.yes)
    }

    /// Asks whether an item has an unfinished entry. If it has, the caller waits
    /// for it. This takes two of the free rows at most.
    ///
    /// The error is `NoItem` (66), or else `HistoryFull` (60). After an error nothing is changed.
    #[tactic(auto, using(crate::proofs::Answered::ask_refused, crate::proofs::Answered::ask_idle, crate::proofs::Answered::ask_waits))]
    pub fn ask(&mut self, item: ItemId) -> Result<Ask, BookError>
        ensures row { IfOk result (λ answer. AnswersAsk self.old self.new item answer) }
        ensures left { OnOk result (free self.old ≤ free self.new + 2) }
        ensures refused { IfErr result (λ e. RefusesItem self.old item AskEvent e × (self.new ≡ self.old)) }
    {
        let row = self.row(Call::Ask(Subject::Item(item)))?;
        if row.yes {
            let mark = row.number;
            Ok(Ask::Waiting(Asked { item, mark }))
        } else {
            Ok(Ask::Idle)
        }
    }

    /// Tells a waiting caller whether its wait is over. The answer is `NotAsked` (65) exactly if no ask about its
    /// item waits, and otherwise `NotYet` exactly if an unfinished entry of the item has a number below the mark. In
    /// both cases nothing is changed, and the ask is given back.
    #[tactic(auto, using(crate::proofs::Answered::told_done, crate::proofs::Answered::no_ask))]
    pub fn told(&mut self, asked: Asked) -> Told
        ensures { AnswersTold self.old self.new asked result }
    {
        match self.answer(Call::Told(Subject::Item(asked.item), asked.mark)) {
            Ok(Reply::Wrote(_)) => {
                asked.give_up();
                Told::Done
            }
            Ok(Reply::NotYet) => Told::NotYet(asked),
            Ok(Reply::WroteTwo(_, _)) => unreachable!(),
            Ok(Reply::Done) => unreachable!(),
            Err(_) => Told::NotAsked(asked),
        }
    }

    /// Asks whether a lane has an unfinished entry. If it has, the caller waits
    /// for the whole lane. This takes two of the free rows at most.
    ///
    /// The error is `WrongLane` (64), if there is no such lane, or else
    /// `HistoryFull` (60). After an error nothing is changed.
    #[tactic(auto, using(crate::proofs::Answered::ask_lane_idle, crate::proofs::Answered::ask_lane_waits))]
    pub fn ask_lane(&mut self, q: LaneId) -> Result<LaneAsk, BookError>
        ensures row { IfOk result (λ answer. AnswersAskLane self.old self.new q answer) }
        ensures left { OnOk result (free self.old ≤ free self.new + 2) }
        ensures refused { IfErr result (λ e. RefusesAskLane self.old q e × (self.new ≡ self.old)) }
    {
        let row = self.row(Call::Ask(Subject::Lane(q)))?;
        if row.yes {
            let mark = row.number;
            Ok(LaneAsk::Waiting(LaneAsked { lane: q, mark }))
        } else {
            Ok(LaneAsk::Idle)
        }
    }

    /// Tells a caller who waits for a whole lane whether its wait is over. The answer is `NotAsked` (65) exactly if
    /// no ask about its lane waits, and otherwise `NotYet` exactly if an unfinished entry of the lane has a number
    /// below the mark. In both cases nothing is changed, and the ask is given back.
    #[tactic(auto, using(crate::proofs::Answered::told_lane_done, crate::proofs::Answered::no_ask))]
    pub fn told_lane(&mut self, asked: LaneAsked) -> LaneTold
        ensures { AnswersToldLane self.old self.new asked result }
    {
        match self.answer(Call::Told(Subject::Lane(asked.lane), asked.mark)) {
            Ok(Reply::Wrote(_)) => {
                asked.give_up();
                LaneTold::Done
            }
            Ok(Reply::NotYet) => LaneTold::NotYet(asked),
            Ok(Reply::WroteTwo(_, _)) => unreachable!(),
            Ok(Reply::Done) => unreachable!(),
            Err(_) => LaneTold::NotAsked(asked),
        }
    }

    /// Starts the first pending entry of a lane whose item isn't running, in this context, and gives its item, which is
    /// one of this lane. If there is none it gives nothing, and nothing is changed.
    ///
    /// The error is `WrongLane` (64), exactly if there is no such lane or no such context, or it runs an entry.
    /// After an error nothing is changed.
    #[tactic(auto, using(crate::proofs::Answered::start_some, crate::proofs::Answered::start_none, crate::proofs::Answered::start_later, crate::proofs::Answered::lane_refused, crate::proofs::Answered::lane_of_book))]
    fn start_in(&mut self, context: Context) -> Result<Option<ItemId>, BookError>
        ensures row { IfOk result (λ answer. AnswersStart self.old self.new context.lane context.number answer) }
        ensures known { IfOk result (λ answer. IfSome answer (λ item.
            (item < items self.old.wiring) × (lane_of self.old.wiring item ≡ context.lane))) }
        ensures refused { IfErr result (λ e. RefusesLane (IsWrongToStart self.old context.lane context.number) e
            × (self.new ≡ self.old)) }
    {
        self.legal();
        match self.answer(Call::Start(context)) {
            Ok(Reply::Wrote(row)) => Ok(Some(row.event.item())),
            Ok(Reply::Done) => Ok(None),
            Ok(Reply::NotYet) => Ok(None),
            Ok(Reply::WroteTwo(_, _)) => unreachable!(),
            Err(e) => Err(BookError::of(e)),
        }
    }

    /// Makes what a context runs begin to wait, for an item or its whole lane: true if that has an unfinished entry.
    #[tactic(auto, using(crate::proofs::Answered::wait_row))]
    fn wait_in(&mut self, context: Context, whole: bool, target: ItemId) -> Result<bool, BookError>
        ensures row { IfOk result (λ unfinished. AppendsOne self.old self.new
            (wait_event whole context.lane context.number target) unfinished) }
        ensures refused { IfErr result (λ e. RefusesWait self.old context.lane context.number whole target e
            × (self.new ≡ self.old)) }
    {
        let row = self.row(Call::Wait(context, Flush { target, whole }))?;
        Ok(row.yes)
    }

    /// Lets what a context runs go on, if its wait is over, for an item or for a whole lane. It gives false if
    /// the wait isn't over; then nothing is changed.
    ///
    /// The error is `WrongLane` (64), exactly if there is no such lane or no such context, it runs nothing, or its
    /// entry doesn't wait. After an error nothing is changed.
    #[tactic(auto, using(crate::proofs::Answered::over_true, crate::proofs::Answered::over_false, crate::proofs::Answered::over_not_refused))]
    fn over_in(&mut self, context: Context) -> Result<bool, BookError>
        ensures row { IfOk result (λ answer. AnswersOver self.old self.new context.lane context.number answer) }
        ensures refused { IfErr result (λ e. RefusesLane (IsNotWaiting self.old context.lane context.number) e
            × (self.new ≡ self.old)) }
    {
        let Some(waits) = self.wait_of(&context) else {
            return Err(BookError::WrongLane);
        };
        let flush = Flush {
            target: waits.target,
            whole: waits.whole,
        };
        match self.answer(Call::Over(context, flush)) {
            Ok(Reply::Wrote(_)) => Ok(true),
            Ok(Reply::NotYet) => Ok(false),
            Ok(Reply::WroteTwo(_, _)) => unreachable!(),
            Ok(Reply::Done) => unreachable!(),
            Err(_) => unreachable!(),
        }
    }

    /// Starts the first pending entry of a lane whose item isn't running, in its rescuer, and gives its item, which is
    /// one of this lane. If there is none it gives nothing, and nothing is changed.
    ///
    /// The error is `WrongLane` (64), exactly if there is no such lane or its
    /// rescuer runs an entry. After an error nothing is changed.
    pub fn start(&mut self, q: LaneId) -> Result<Option<ItemId>, BookError>
        ensures row { IfOk result (λ answer. AnswersStart self.old self.new q 0 answer) }
        ensures known { IfOk result (λ answer.
            IfSome answer (λ item. (item < items self.old.wiring) × (lane_of self.old.wiring item ≡ q))) }
        ensures refused { IfErr result (λ e. RefusesLane (IsWrongToStart self.old q 0) e × (self.new ≡ self.old)) }
    {
        self.start_in(Context { lane: q, number: 0 })
    }

    /// Makes what a lane's rescuer runs begin to wait for an item: true if that item has an unfinished entry.
    ///
    /// The error is the first of these that holds: `WrongLane` (64), if there is no such lane, its rescuer runs
    /// nothing, or what it runs waits; `Undeclared` (62), if what runs declares no flush of the item alone;
    /// `TooManyWaits` (63). After an error nothing is changed.
    pub fn wait(&mut self, q: LaneId, target: ItemId) -> Result<bool, BookError>
        ensures row { IfOk result (λ unfinished. AppendsOne self.old self.new (Wait q target) unfinished) }
        ensures refused { IfErr result (λ e. RefusesWait self.old q 0 false target e × (self.new ≡ self.old)) }
    {
        self.wait_in(Context { lane: q, number: 0 }, false, target)
    }

    /// Makes what a lane's rescuer runs begin to wait for the whole lane of an item:
    /// true if that lane has an unfinished entry.
    ///
    /// The error is the first of these that holds: `WrongLane` (64), if there is no such lane, its rescuer runs
    /// nothing, or what it runs waits; `Undeclared` (62), if what runs declares no flush of the whole lane of the
    /// item; `TooManyWaits` (63). After an error nothing is changed.
    pub fn wait_all(&mut self, q: LaneId, target: ItemId) -> Result<bool, BookError>
        ensures row { IfOk result (λ unfinished. AppendsOne self.old self.new (WaitAll q target) unfinished) }
        ensures refused { IfErr result (λ e. RefusesWait self.old q 0 true target e × (self.new ≡ self.old)) }
    {
        self.wait_in(Context { lane: q, number: 0 }, true, target)
    }

    /// Lets what a lane's rescuer runs go on, if its wait is over, for an item or for a whole lane. It gives false
    /// if the wait isn't over; then nothing is changed.
    ///
    /// The error is `WrongLane` (64), exactly if there is no such lane, its rescuer runs nothing, or what it runs
    /// doesn't wait. After an error nothing is changed.
    pub fn over(&mut self, q: LaneId) -> Result<bool, BookError>
        ensures row { IfOk result (λ answer. AnswersOver self.old self.new q 0 answer) }
        ensures refused { IfErr result (λ e. RefusesLane (IsNotWaiting self.old q 0) e × (self.new ≡ self.old)) }
    {
        self.over_in(Context { lane: q, number: 0 })
    }

    /// Finishes what a lane's rescuer runs.
    ///
    /// The error is `WrongLane` (64), exactly if there is no such lane, its rescuer runs nothing, or what it runs
    /// waits. After an error nothing is changed.
    #[tactic(auto, using(crate::proofs::Answered::by_finish))]
    pub fn finish(&mut self, q: LaneId) -> Result<(), BookError>
        ensures row { IfOk result (λ _. (r : Running)
            × LaneRuns self.old q 0 r
            × AppendsOne self.old self.new (Finish q r.entry.item) true) }
        ensures refused { IfErr result (λ e. RefusesLane (IsNotAwake self.old q 0) e × (self.new ≡ self.old)) }
    {
        let Some(item) = self.running(q) else {
            return Err(BookError::WrongLane);
        };
        self.row(Call::Finish(Context { lane: q, number: 0 }, item))?;
        Ok(())
    }

    /// Starts the first pending entry of a lane whose item isn't running, in a helper, and gives its item, which is one
    /// of this lane. If there is none it gives nothing, and nothing is changed.
    ///
    /// The error is `WrongLane` (64), exactly if there is no such lane, it has no such helper, or the helper runs an
    /// entry. After an error nothing is changed.
    pub fn help_start(&mut self, q: LaneId, h: u8) -> Result<Option<ItemId>, BookError>
        ensures row { IfOk result (λ answer. (0 < h) × AnswersStart self.old self.new q h answer) }
        ensures known { IfOk result (λ answer.
            IfSome answer (λ item. (item < items self.old.wiring) × (lane_of self.old.wiring item ≡ q))) }
        ensures refused { IfErr result (λ e. RefusesHelp h (RefusesLane (IsWrongToStart self.old q h)) e
            × (self.new ≡ self.old)) }
    {
        if h == 0 {
            return Err(BookError::WrongLane);
        }
        self.start_in(Context { lane: q, number: h })
    }

    /// Makes what a helper runs begin to wait for an item: true if that item has an unfinished entry.
    ///
    /// The error is the first of these that holds: `WrongLane` (64), if there is no such lane, it has no such
    /// helper, the helper runs nothing, or what it runs waits; `Undeclared` (62), if what runs declares no flush of
    /// the item alone; `TooManyWaits` (63). After an error nothing is changed.
    pub fn help_wait(&mut self, q: LaneId, h: u8, target: ItemId) -> Result<bool, BookError>
        ensures row { IfOk result (λ unfinished. (0 < h)
            × AppendsOne self.old self.new (wait_event false q h target) unfinished) }
        ensures refused { IfErr result (λ e. RefusesHelp h (RefusesWait self.old q h false target) e
            × (self.new ≡ self.old)) }
    {
        if h == 0 {
            return Err(BookError::WrongLane);
        }
        self.wait_in(Context { lane: q, number: h }, false, target)
    }

    /// Makes what a helper runs begin to wait for the whole lane of an item: true
    /// if that lane has an unfinished entry.
    ///
    /// The error is the first of these that holds: `WrongLane` (64), if there is no such lane, it has no such
    /// helper, the helper runs nothing, or what it runs waits; `Undeclared` (62), if what runs declares no flush of
    /// the whole lane of the item; `TooManyWaits` (63). After an error nothing is changed.
    pub fn help_wait_all(&mut self, q: LaneId, h: u8, target: ItemId) -> Result<bool, BookError>
        ensures row { IfOk result (λ unfinished. (0 < h)
            × AppendsOne self.old self.new (wait_event true q h target) unfinished) }
        ensures refused { IfErr result (λ e. RefusesHelp h (RefusesWait self.old q h true target) e
            × (self.new ≡ self.old)) }
    {
        if h == 0 {
            return Err(BookError::WrongLane);
        }
        self.wait_in(Context { lane: q, number: h }, true, target)
    }

    /// Lets what a helper runs go on, if its wait is over, for an item or for a whole lane. It gives false if the
    /// wait isn't over; then nothing is changed.
    ///
    /// The error is `WrongLane` (64), exactly if there is no such lane, it has no such helper, the helper runs
    /// nothing, or what it runs doesn't wait. After an error nothing is changed.
    pub fn help_over(&mut self, q: LaneId, h: u8) -> Result<bool, BookError>
        ensures row { IfOk result (λ answer. (0 < h) × AnswersOver self.old self.new q h answer) }
        ensures refused { IfErr result (λ e. RefusesHelp h (RefusesLane (IsNotWaiting self.old q h)) e
            × (self.new ≡ self.old)) }
    {
        if h == 0 {
            return Err(BookError::WrongLane);
        }
        self.over_in(Context { lane: q, number: h })
    }

    /// Finishes what a helper runs.
    ///
    /// The error is `WrongLane` (64), exactly if there is no such lane, it has no such helper, the helper runs
    /// nothing, or what it runs waits. After an error nothing is changed.
    #[tactic(auto, using(crate::proofs::Answered::by_finish))]
    pub fn help_finish(&mut self, q: LaneId, h: u8) -> Result<(), BookError>
        ensures row { IfOk result (λ _. (r : Running) × HelperRuns self.old q h r
            × AppendsOne self.old self.new (finish_event q h r.entry.item) true) }
        ensures refused { IfErr result (λ e. RefusesHelp h (RefusesLane (IsNotAwake self.old q h)) e
            × (self.new ≡ self.old)) }
    {
        if h == 0 {
            return Err(BookError::WrongLane);
        }
        let context = Context { lane: q, number: h };
        let Some(item) = self.running_in(&context) else {
            return Err(BookError::WrongLane);
        };
        self.row(Call::Finish(context, item))?;
        Ok(())
    }

    /// Closes the book: nothing is queued from now on. It writes no row, and closing twice is the same as closing once.
    pub fn close(&mut self)
        ensures { self.new ≡ record self.old { closed = true } }
    {
        self.closed = true;
    }

    /// Whether the book is closed.
    pub fn is_closed(&self) -> bool
        ensures { result ≡ self.now.closed }
    {
        self.closed
    }

    /// Whether no entry is unfinished. Then no work is left, and only then.
    pub fn is_idle(&self) -> bool
        ensures { IsTrue result ↔ (¬ HasUnfinished (state self.now)) }
    {
        self.work == 0
    }

    /// Whether all is done: the book is closed, and no entry is unfinished.
    pub fn all_done(&self) -> bool
        ensures { IsTrue result ↔ IsMet self.now AllDone }
    {
        self.closed && self.is_idle()
    }

    /// Whether some ask is waiting. If none is, for each item and each lane as
    /// many callers were told as asked about it with `yes`.
    pub fn has_waiting_asks(&self) -> bool
        ensures some { IsTrue result ↔ (0 < all_asks_waiting self.now.rows) }
        ensures none { result ≡ false → (x : SubjectValue)
            → count_by (ends_a_wait x) self.now.rows ≡ count_by (begins_to_wait x) self.now.rows }
    {
        self.asks.all() > 0
    }

    /// Whether an entry of an item is pending; false for an item that doesn't exist.
    pub fn is_pending(&self, item: ItemId) -> bool
        ensures { IsTrue result ↔ HasPending (state self.now) item }
    {
        self.core.is_pending(item)
    }

    /// Whether an entry is pending on a lane; false if there is no such lane.
    pub fn is_pending_on(&self, q: LaneId) -> bool
        ensures { IsTrue result ↔ HasPendingOn self.now q }
    {
        self.core.first_on(q).is_some()
    }

    /// The item that a context runs; nothing if it runs none, or there is no such lane or no such context.
    pub fn running_in(&self, context: &Context) -> Option<ItemId>
        ensures some { IfSome result (λ item. (r : Running) × LaneRuns self.now context.now.lane context.now.number r
            × (r.entry.item ≡ item)) }
        ensures known { IfSome result (λ item. (item < items self.now.wiring)
            × (lane_of self.now.wiring item ≡ context.now.lane)) }
        ensures none { IfNone result ((r : Running) → ¬ LaneRuns self.now context.now.lane context.now.number r) }
    {
        let running = self.entry_in(context)?;
        Some(running.entry.item)
    }

    /// The target of the wait of a context, if it waits for an item alone, as `waiting`, or if it waits for a
    /// whole lane, as `waiting_all`.
    pub fn waiting_in(&self, context: &Context, whole: bool) -> Option<ItemId>
        ensures some { IfSome result (λ target. (f : Waiting)
            × IsWaitingBy self.now context.now.lane context.now.number whole f × (f.target ≡ target)) }
        ensures none { IfNone result ((f : Waiting) →
            ¬ IsWaitingBy self.now context.now.lane context.now.number whole f) }
    {
        let Some(flush) = self.wait_of(context) else {
            return None;
        };
        if flush.whole == whole {
            Some(flush.target)
        } else {
            None
        }
    }

    /// The item that a lane's rescuer runs; nothing if it runs none, or there is no such lane.
    pub fn running(&self, q: LaneId) -> Option<ItemId>
        ensures some { IfSome result (λ item. (r : Running) × LaneRuns self.now q 0 r × (r.entry.item ≡ item)) }
        ensures known { IfSome result (λ item. (item < items self.now.wiring) × (lane_of self.now.wiring item ≡ q)) }
        ensures none { IfNone result ((r : Running) → ¬ LaneRuns self.now q 0 r) }
    {
        self.running_in(&Context { lane: q, number: 0 })
    }

    /// The item that a lane's rescuer waits for, if it waits for an item alone; nothing if it waits for a whole
    /// lane, doesn't wait, runs none, or if there is no such lane.
    pub fn waiting(&self, q: LaneId) -> Option<ItemId>
        ensures some { IfSome result (λ target. (f : Waiting)
            × IsWaitingBy self.now q 0 false f
            × (f.target ≡ target)) }
        ensures none { IfNone result ((f : Waiting) → ¬ IsWaitingBy self.now q 0 false f) }
    {
        self.waiting_in(&Context { lane: q, number: 0 }, false)
    }

    /// The item for whose whole lane a lane's rescuer waits; nothing if it waits for an item alone, doesn't wait,
    /// runs none, or if there is no such lane.
    pub fn waiting_all(&self, q: LaneId) -> Option<ItemId>
        ensures some { IfSome result (λ target. (f : Waiting) × IsWaitingBy self.now q 0 true f × (f.target ≡ target)) }
        ensures none { IfNone result ((f : Waiting) → ¬ IsWaitingBy self.now q 0 true f) }
    {
        self.waiting_in(&Context { lane: q, number: 0 }, true)
    }

    /// The item that a helper runs; nothing if it runs none, or there is no such lane or no such helper.
    pub fn help_running(&self, q: LaneId, h: u8) -> Option<ItemId>
        ensures some { IfSome result (λ item. (r : Running) × HelperRuns self.now q h r × (r.entry.item ≡ item)) }
        ensures known { IfSome result (λ item. (item < items self.now.wiring) × (lane_of self.now.wiring item ≡ q)) }
        ensures none { IfNone result ((r : Running) → ¬ HelperRuns self.now q h r) }
    {
        if h == 0 {
            return None;
        }
        self.running_in(&Context { lane: q, number: h })
    }

    /// The item that a helper waits for, if it waits for an item alone; nothing if it waits for a whole lane,
    /// doesn't wait, runs none, or if there is no such lane or no such helper.
    pub fn help_waiting(&self, q: LaneId, h: u8) -> Option<ItemId>
        ensures some { IfSome result (λ target. (f : Waiting)
            × HelperWaitsBy self.now q h false f
            × (f.target ≡ target)) }
        ensures none { IfNone result ((f : Waiting) → ¬ HelperWaitsBy self.now q h false f) }
    {
        if h == 0 {
            return None;
        }
        self.waiting_in(&Context { lane: q, number: h }, false)
    }

    /// The item for whose whole lane a helper waits; nothing if it waits for an item alone, doesn't wait, runs none,
    /// or if there is no such lane or no such helper.
    pub fn help_waiting_all(&self, q: LaneId, h: u8) -> Option<ItemId>
        ensures some { IfSome result (λ target. (f : Waiting)
            × HelperWaitsBy self.now q h true f
            × (f.target ≡ target)) }
        ensures none { IfNone result ((f : Waiting) → ¬ HelperWaitsBy self.now q h true f) }
    {
        if h == 0 {
            return None;
        }
        self.waiting_in(&Context { lane: q, number: h }, true)
    }

    /// How many helpers a lane has, at most 8; 0 if there is no such lane.
    pub fn helpers_of(&self, q: LaneId) -> u8
        ensures { result ≡ helpers_of self.now.wiring q }
    {
        self.core.helpers_of(q)
    }

    /// The lane of an item, if there is such an item.
    pub fn lane_of(&self, item: ItemId) -> Option<LaneId>
        ensures some { IfSome result (λ q. (item < items self.now.wiring) × (q ≡ lane_of self.now.wiring item)) }
        ensures none { IfNone result (items self.now.wiring ≤ item) }
    {
        if is_item(&self.core, item) {
            Some(self.core.lane_of(item))
        } else {
            None
        }
    }

    /// How many items there are, at most 4,096.
    pub fn items(&self) -> usize
        ensures { result ≡ items self.now.wiring }
    {
        self.core.items()
    }

    /// How many lanes there are, at most 4,096.
    pub fn lanes(&self) -> usize
        ensures { result ≡ self.now.wiring.lanes }
    {
        self.core.lanes()
    }

    /// The rows, in order.
    pub fn rows(&self) -> Rows<'_>
        ensures { result ≡ self.now.rows }
    {
        self.history.rows()
    }

    /// The bytes of the rows, 12 for each.
    pub fn packed(&self) -> &[u8]
        ensures { result.now ≡ packed_rows self.now.rows }
    {
        self.history.packed()
    }
}
