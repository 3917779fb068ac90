//! The machine: its wiring, its state, and the steps that change it.
//!
//! The rules are those of "Rules" in the specs of this crate. The number of an item's pending entry is kept beside the
//! lanes, so a question about an item takes constant time. So does each step, and the question which number it would
//! give, with two exceptions. A cancellation takes time in the logarithm of the number of entries that are pending on
//! the lane, and moves those before or after the one that is removed, whichever are fewer. A wait takes time in the
//! logarithm of the number of the item's targets. Only `new` and `with_helpers` take memory. They take memory in the
//! number of items, flushes, lanes and helpers; their time is that times the logarithm of the flushes of one item.

ghost use Rattle.std.specs.Prelude.{◌≡◌, ◌<◌, ◌≤◌, length, slice_get, Some, IfSome, IfNone, OnSome, IfOk, OnErr, IfErr};
ghost use Rattle.std.specs.Prelude.{IsTrue, ◌↔◌, take};
ghost use Rattle.wq_items.specs.Table.{ItemWaitsBy};
ghost use Rattle.wq_groups.specs.Declaration.{declaration_of};
ghost use Rattle.wq_core.specs.declared.step.StepError.{StepError};
ghost use Rattle.wq_core.specs.declared.step.Step.TheVariants.{Queue, Cancel, Start, Help};
ghost use Rattle.wq_core.specs.declared.step.HelpStep.TheVariants.{Start as DoStart, Finish as DoFinish};
ghost use Rattle.wq_core.specs.Wiring.{HasRescuer, max_helpers, helpers_of, HasContext, items, lane_of, declared_by};
ghost use Rattle.wq_core.specs.State.{lane_at, run_by, next_of, IsPendingOn, HasPending, HasUnfinishedBelow};
ghost use Rattle.wq_core.specs.State.{HasUnfinishedOf, HasUnfinished, IsBusyBelow};
ghost use Rattle.wq_core.specs.Rules.{IsHeldBack, step_in, wait_deed, over_deed};
ghost use Rattle.wq_core.specs.Held.{IsMachine, IsNumberOf, IsDone, IsRefusal, AreDone, machine_after, HasPendingBelow};
ghost use Rattle.wq_core.specs.Held.{RunsBelow, IsRising};
ghost use Rattle.wq_core.specs.Building.{first_machine, first_machine_on, first_machine_with};

use crate::building::lane_shapes;
use crate::entry::{Entry, Running};
use crate::lane::Lane;
use crate::lanes::Lanes;
use crate::pending::PendingNumbers;
use crate::step::{Context, HelpStep, RunError, Step, StepError};
use crate::targets::Targets;
use crate::workqueues::Workqueues;
use std::alloc::{AllocError, Allocator};
use std::marker::Model;
use wq_groups::{Assignment, Groups, LaneId};
use wq_items::{ItemId, ItemTable, Target};

/// The machine. Contracts see its wiring and its state.
#[derive(Drop)]
pub struct Core<A: Allocator> {
    targets: Targets<A>,
    lane_of_item: Vec<u16, A>,
    bare: Vec<bool, A>,
    helpers: u8,
    pending: PendingNumbers<A>,
    lanes: Lanes<A>,
    next: u32,
}

impl<A: Allocator> Model for Core<A> {
    ghost use Rattle.wq_core.specs.Held.{Machine, machine_of, IsHeld};

    ghost Value = { Machine };

    ghost view = { λ m. machine_of m.targets m.lane_of_item.items m.bare.items m.helpers m.lanes m.next };

    ghost invariant = { λ m. IsHeld m.targets m.lane_of_item.items m.bare.items m.helpers m.pending m.lanes m.next };
}

impl<A: Allocator + Copy> Core<A> {
    /// Makes the machine of a declaration and an assignment, without helpers, before anything is queued: of a table,
    /// the groups of its items, and the lane of each group.
    ///
    /// The only error is out of memory (20), which can't occur if there is no
    /// lane; any other machine holds lanes in memory.
    pub fn new(
        alloc: A,
        table: &ItemTable<'_, A>,
        groups: &Groups<A>,
        assignment: &Assignment<A>,
    ) -> Result<Self, AllocError>
        requires grouped { length groups.now.group_of ≡ length table.now.names }
        requires assigned { length assignment.now.lane_of_group ≡ groups.now.groups }
        ensures machine { IfOk result (λ m. m ≡ first_machine (declaration_of table.now groups.now) assignment.now) }
        ensures memory { OnErr result (0 < assignment.now.lanes) }
    {
        Core::with_helpers(alloc, table, groups, assignment, 0)
    }

    /// Makes the machine in which each lane has this many helpers, at most 8, unless
    /// it holds a group of two or more items.
    ///
    /// The only error is out of memory (20), which can't occur if there is no lane.
    pub fn with_helpers(
        alloc: A,
        table: &ItemTable<'_, A>,
        groups: &Groups<A>,
        assignment: &Assignment<A>,
        helpers: u8,
    ) -> Result<Self, AllocError>
        requires grouped { length groups.now.group_of ≡ length table.now.names }
        requires assigned { length assignment.now.lane_of_group ≡ groups.now.groups }
        requires few { helpers ≤ max_helpers }
        ensures machine { IfOk result (λ m. m
            ≡ first_machine_with (declaration_of table.now groups.now) assignment.now helpers) }
        ensures memory { OnErr result (0 < assignment.now.lanes) }
    {
        Self::made(alloc, table, groups, assignment, Vec::new(alloc), helpers)
    }

    /// Makes the machine of a declaration and its workqueues, without helpers, before anything is queued.
    ///
    /// The only error is out of memory (20), which can't occur if there is no workqueue.
    pub fn on_workqueues(
        alloc: A,
        table: &ItemTable<'_, A>,
        groups: &Groups<A>,
        workqueues: &Workqueues<A>,
    ) -> Result<Self, AllocError>
        requires grouped { length groups.now.group_of ≡ length table.now.names }
        requires assigned { length workqueues.now.assignment.lane_of_group ≡ groups.now.groups }
        ensures machine { IfOk result (λ m. m
            ≡ first_machine_on (declaration_of table.now groups.now) workqueues.now 0) }
        ensures memory { OnErr result (0 < workqueues.now.assignment.lanes) }
    {
        let bare = workqueues.bare_lanes(alloc)?;
        Self::made(alloc, table, groups, workqueues.assignment(), bare, 0)
    }

    /// The machine with these bare lanes and this many helpers.
    fn made(
        alloc: A,
        table: &ItemTable<'_, A>,
        groups: &Groups<A>,
        assignment: &Assignment<A>,
        bare: Vec<bool, A>,
        helpers: u8,
    ) -> Result<Self, AllocError>
        requires grouped { length groups.now.group_of ≡ length table.now.names }
        requires assigned { length assignment.now.lane_of_group ≡ groups.now.groups }
        requires few { helpers ≤ max_helpers }
        ensures machine { IfOk result (λ m.
            m
            ≡ first_machine_on (declaration_of table.now groups.now)
            (record { assignment = assignment.now; bare = bare.items }) helpers) }
        ensures memory { OnErr result (0 < assignment.now.lanes) }
    {
        let _lanes = assignment.lanes();
        let lane_of_item = assignment.item_lanes(alloc, groups)?;
        let targets = Targets::new(alloc, table)?;
        let pending = PendingNumbers::new(alloc, table.len())?;
        let shapes = lane_shapes(alloc, lane_of_item.as_slice(), groups, assignment)?;
        let lanes = Lanes::new(alloc, shapes.as_slice(), helpers)?;
        Ok(Core {
            targets,
            lane_of_item,
            bare,
            helpers,
            pending,
            lanes,
            next: 0,
        })
    }
}

impl<A: Allocator> Core<A> {
    /// How many items there are, at most 4,096.
    pub fn items(&self) -> usize
        ensures items { result ≡ items self.now.wiring }
        ensures machine { IsMachine self.now }
    {
        self.targets.len()
    }

    /// How many lanes there are.
    pub fn lanes(&self) -> usize
        ensures lanes { result ≡ self.now.wiring.lanes }
        ensures machine { IsMachine self.now }
    {
        self.lanes.len()
    }

    /// How many helpers each lane has that isn't ordered, at most 8.
    pub fn helpers(&self) -> u8
        ensures helpers { result ≡ self.now.wiring.helpers }
        ensures few { result ≤ max_helpers }
    {
        self.helpers
    }

    /// How many helpers a lane has; none if it holds a group of two or more items, or there is no such lane.
    pub fn helpers_of(&self, q: LaneId) -> u8
        ensures helpers { result ≡ helpers_of self.now.wiring q }
        ensures few { result ≤ max_helpers }
        ensures machine { IsMachine self.now }
    {
        if usize::from(q.get()) < self.lanes() && !self.lanes.lane(q).is_ordered() {
            self.helpers
        } else {
            0
        }
    }

    /// Whether a lane has a rescuer: it isn't one of the bare lanes.
    pub fn has_rescuer(&self, q: LaneId) -> bool
        ensures { IsTrue result ↔ HasRescuer self.now.wiring q }
    {
        match self.bare.get(usize::from(q.get())) {
            Some(is_bare) => !*is_bare,
            None => true,
        }
    }

    /// Whether there is such a context.
    pub fn has_context(&self, context: Context) -> bool
        ensures { IsTrue result ↔ HasContext self.now.wiring context.lane context.number }
    {
        usize::from(context.lane.get()) < self.lanes()
            && context.number <= self.helpers_of(context.lane)
    }

    /// A lane, if there is such a lane.
    pub(crate) fn lane(&self, q: LaneId) -> &Lane<A>
        requires { q < self.now.wiring.lanes }
        ensures lane { result.now.lane ≡ lane_at self.now.state q }
        ensures rising { IsRising result.now.lane.pending }
    {
        self.lanes.lane(q)
    }

    /// What the rescuer of a lane runs, with the waits that it has made and what it waits for; nothing if it runs
    /// nothing, or where there is no such lane.
    pub fn running_on(&self, q: LaneId) -> Option<Running>
        ensures running { result ≡ (lane_at self.now.state q).running }
        ensures machine { IsMachine self.now }
    {
        if usize::from(q.get()) < self.lanes() {
            self.lane(q).running()
        } else {
            None
        }
    }

    /// What a context runs, with the waits that it has made and what it waits for; nothing if it runs nothing, or
    /// where there is no such context.
    pub fn running_in(&self, context: Context) -> Option<Running>
        ensures running { result ≡ run_by (lane_at self.now.state context.lane) context.number }
        ensures machine { IsMachine self.now }
    {
        if usize::from(context.lane.get()) < self.lanes() {
            self.lane(context.lane).run_by(context.number)
        } else {
            None
        }
    }

    /// The entry that a context of a lane starts next, the first pending one whose item isn't running; none if there
    /// is no such entry, or no such lane.
    pub fn next_on(&self, q: LaneId) -> Option<Entry>
        ensures next { result ≡ next_of (lane_at self.now.state q) }
        ensures machine { IsMachine self.now }
    {
        if usize::from(q.get()) < self.lanes() {
            self.lane(q).next()
        } else {
            None
        }
    }

    /// The first pending entry of a lane; none if nothing is pending on it, or there is no such lane.
    pub fn first_on(&self, q: LaneId) -> Option<Entry>
        ensures first { result ≡ slice_get (lane_at self.now.state q).pending 0 }
        ensures machine { IsMachine self.now }
    {
        if usize::from(q.get()) < self.lanes() {
            self.lane(q).first()
        } else {
            None
        }
    }

    /// The lane on which an item is queued, run and waited for: that of its group.
    pub fn lane_of(&self, item: ItemId) -> LaneId
        requires { item < items self.now.wiring }
        ensures lane { result ≡ lane_of self.now.wiring item }
        ensures within { result < self.now.wiring.lanes }
    {
        LaneId::new(self.lane_of_item[usize::from(item.get())])
    }

    /// The pending entry of an item, if there is one.
    fn pending_entry(&self, item: ItemId) -> Option<Entry>
        ensures some { IfSome result (λ e. IsPendingOn (lane_at self.now.state (lane_of self.now.wiring item)) e
            × (e.item ≡ item)) }
        ensures item { OnSome result (item < items self.now.wiring) }
        ensures none { IfNone result (¬ HasPending self.now.state item) }
        ensures machine { IsMachine self.now }
    {
        let number = self.pending.of(item)?;
        Some(Entry { number, item })
    }

    /// Whether a pending entry of an item has a number below the mark.
    fn has_pending_below(&self, item: ItemId, mark: u32) -> bool
        ensures { IsTrue result ↔ HasPendingBelow self.now.state item mark }
    {
        match self.pending.of(item) {
            Some(number) => number < mark,
            None => false,
        }
    }

    /// Whether an entry of an item runs, with a number below the mark.
    fn runs_below(&self, item: ItemId, mark: u32) -> bool
        ensures { IsTrue result ↔ RunsBelow self.now.state item mark }
    {
        if usize::from(item.get()) < self.items() {
            self.lane(self.lane_of(item)).runs_below(item, mark)
        } else {
            false
        }
    }

    /// Whether an unfinished entry of an item, pending or running, has a number
    /// below the mark. An item that doesn't exist has none.
    pub fn unfinished_below(&self, item: ItemId, mark: u32) -> bool
        ensures { IsTrue result ↔ HasUnfinishedBelow self.now.state item mark }
    {
        self.has_pending_below(item, mark) || self.runs_below(item, mark)
    }

    /// Whether an unfinished entry of a lane has a number below the mark. A lane that doesn't exist has none.
    pub fn lane_unfinished_below(&self, q: LaneId, mark: u32) -> bool
        ensures { IsTrue result ↔ IsBusyBelow (lane_at self.now.state q) mark }
    {
        if usize::from(q.get()) < self.lanes() {
            self.lane(q).is_busy_below(mark)
        } else {
            false
        }
    }

    /// Whether what a wait with this mark is for isn't done: an unfinished entry of the item has a lower number, or any
    /// unfinished entry of its whole lane.
    pub fn is_held_back(&self, whole: bool, target: ItemId, mark: u32) -> bool
        requires { target < items self.now.wiring }
        ensures { IsTrue result ↔ IsHeldBack self.now.wiring self.now.state whole target mark }
    {
        if whole {
            self.lane_unfinished_below(self.lane_of(target), mark)
        } else {
            self.unfinished_below(target, mark)
        }
    }

    /// Whether an item has an unfinished entry, pending or running. An item that doesn't exist has none.
    pub fn has_unfinished(&self, item: ItemId) -> bool
        ensures { IsTrue result ↔ HasUnfinishedOf self.now.state item }
    {
        self.unfinished_below(item, self.next_number())
    }

    /// The number that the next accepted queueing gets: how many were accepted so far.
    pub fn next_number(&self) -> u32
        ensures number { result ≡ self.now.state.next }
        ensures machine { IsMachine self.now }
    {
        self.next
    }

    /// The targets that an item declares, in order: what its execution waits for where it flushes as declared.
    pub fn waits(&self, item: ItemId) -> &[Target]
        requires { item < items self.now.wiring }
        ensures { result.now ≡ declared_by self.now.wiring item }
    {
        self.targets.of(item)
    }

    /// Whether an item declares a flush of another, or of itself: of the item alone, or of its whole workqueue.
    pub fn declares(&self, item: ItemId, whole: bool, target: ItemId) -> bool
        requires { item < items self.now.wiring }
        ensures { IsTrue result ↔ ItemWaitsBy self.now.wiring.waits whole item target }
    {
        self.targets.has(item, whole, target)
    }

    /// The number that a queueing of an item gives, where it is lawful.
    fn may_queue(&self, item: ItemId) -> Option<u32>
        ensures { IsNumberOf self.now (Queue item) result }
    {
        if usize::from(item.get()) < self.items() && self.pending_entry(item).is_none() {
            Some(self.next)
        } else {
            None
        }
    }

    /// The number that a cancellation of an item gives, where it is lawful.
    fn may_cancel(&self, item: ItemId) -> Option<u32>
        ensures number { IsNumberOf self.now (Cancel item) result }
        ensures item { OnSome result (item < items self.now.wiring) }
    {
        let entry = self.pending_entry(item)?;
        Some(entry.number)
    }

    /// The number that a start of a lane's rescuer gives, where it is lawful.
    fn may_start_first(&self, q: LaneId, item: ItemId) -> Option<u32>
        ensures { IsNumberOf self.now (Start q item) result }
    {
        if self.running_on(q).is_some() {
            return None;
        }
        let next = self.next_on(q)?;
        if next.item == item {
            Some(next.number)
        } else {
            None
        }
    }

    /// The number that a start of a helper gives, where it is lawful.
    fn may_help(&self, context: Context, item: ItemId) -> Option<u32>
        requires { 0 < context.number }
        ensures { IsNumberOf self.now (Help context.lane context.number (DoStart item)) result }
    {
        let entry = self.pending_entry(item)?;
        if self.lane_of(item) == context.lane
            && self.has_context(context)
            && self.running_in(context).is_none()
            && !self.lane(context.lane).is_running(item)
        {
            Some(entry.number)
        } else {
            None
        }
    }

    /// The number that a start of a context gives, where it is lawful.
    fn may_start(&self, context: Context, item: ItemId) -> Option<u32>
        ensures { IsNumberOf self.now (step_in context.lane context.number (DoStart item)) result }
    {
        if context.number == 0 {
            self.may_start_first(context.lane, item)
        } else {
            self.may_help(context, item)
        }
    }

    /// The number that a wait of a context gives, where it is lawful.
    fn may_wait(&self, context: Context, whole: bool, target: ItemId) -> Option<u32>
        ensures { IsNumberOf self.now (step_in context.lane context.number (wait_deed whole target)) result }
    {
        let running = self.running_in(context)?;
        let item = running.entry.item;
        if running.waiting.is_none()
            && (running.made as usize) < self.waits(item).len()
            && self.declares(item, whole, target)
        {
            Some(self.next)
        } else {
            None
        }
    }

    /// The number that the end of a wait of a context gives, where it is lawful.
    fn may_be_over(&self, context: Context, whole: bool, target: ItemId) -> Option<u32>
        ensures { IsNumberOf self.now (step_in context.lane context.number (over_deed whole target)) result }
    {
        let running = self.running_in(context)?;
        let flush = running.waiting?;
        if flush.whole == whole
            && flush.target == target
            && !self.is_held_back(whole, target, flush.mark)
        {
            Some(flush.mark)
        } else {
            None
        }
    }

    /// The number that a finish of a context gives, where it is lawful.
    fn may_finish(&self, context: Context, item: ItemId) -> Option<u32>
        ensures { IsNumberOf self.now (step_in context.lane context.number (DoFinish item)) result }
    {
        let running = self.running_in(context)?;
        if running.entry.item == item && running.waiting.is_none() {
            Some(running.entry.number)
        } else {
            None
        }
    }

    /// The number that what a context does gives, where it is lawful.
    fn may_do(&self, context: Context, deed: HelpStep) -> Option<u32>
        ensures { IsNumberOf self.now (step_in context.lane context.number deed) result }
    {
        match deed {
            HelpStep::Start(item) => self.may_start(context, item),
            HelpStep::Wait(target) => self.may_wait(context, false, target),
            HelpStep::WaitAll(target) => self.may_wait(context, true, target),
            HelpStep::Over(target) => self.may_be_over(context, false, target),
            HelpStep::OverAll(target) => self.may_be_over(context, true, target),
            HelpStep::Finish(item) => self.may_finish(context, item),
        }
    }

    /// The number that a step of a helper gives, where it is lawful.
    fn helper_may(&self, helper: Context, deed: HelpStep) -> Option<u32>
        ensures { IsNumberOf self.now (Help helper.lane helper.number deed) result }
    {
        if helper.number == 0 {
            None
        } else {
            self.may_do(helper, deed)
        }
    }

    /// Queues an item, and gives the number of its entry.
    fn queue(&mut self, item: ItemId) -> Result<u32, StepError>
        ensures done { IfOk result (λ n. IsDone self.old (Queue item) n self.new) }
        ensures refused { IfErr result (λ e. IsRefusal self.old (Queue item) e × (self.new ≡ self.old)) }
    {
        let Some(number) = self.may_queue(item) else {
            return Err(StepError::NotLawful);
        };
        if number == u32::MAX {
            return Err(StepError::NumbersUsedUp);
        }
        let q = self.lane_of(item);
        self.lanes.lane_mut(q).queue(Entry { number, item });
        self.pending.note(item, number);
        self.next += 1;
        Ok(number)
    }

    /// Removes the pending entry of an item, and gives its number.
    fn cancel(&mut self, item: ItemId) -> Result<u32, StepError>
        ensures done { IfOk result (λ n. IsDone self.old (Cancel item) n self.new) }
        ensures refused { IfErr result (λ e. IsRefusal self.old (Cancel item) e × (self.new ≡ self.old)) }
    {
        let Some(number) = self.may_cancel(item) else {
            return Err(StepError::NotLawful);
        };
        let q = self.lane_of(item);
        let entry = Entry { number, item };
        self.lanes.lane_mut(q).cancel(&entry);
        self.pending.forget(item);
        Ok(number)
    }

    /// Starts the pending entry of an item in a context, and gives its number.
    fn start(&mut self, context: Context, item: ItemId) -> Result<u32, StepError>
        ensures done { IfOk result (λ n.
            IsDone self.old (step_in context.lane context.number (DoStart item)) n self.new) }
        ensures refused { IfErr result (λ e.
            IsRefusal self.old (step_in context.lane context.number (DoStart item)) e × (self.new ≡ self.old)) }
    {
        let q = context.lane;
        let by = context.number;
        let Some(number) = self.may_start(context, item) else {
            return Err(StepError::NotLawful);
        };
        let entry = Entry { number, item };
        self.lanes.lane_mut(q).start(by, entry);
        self.pending.forget(item);
        Ok(number)
    }

    /// Makes what a context runs begin to wait, and gives the mark.
    fn wait(&mut self, context: Context, whole: bool, target: ItemId) -> Result<u32, StepError>
        ensures done { IfOk result (λ n.
            IsDone self.old (step_in context.lane context.number (wait_deed whole target)) n self.new) }
        ensures refused { IfErr result (λ e.
            IsRefusal self.old (step_in context.lane context.number (wait_deed whole target)) e
            × (self.new ≡ self.old)) }
    {
        let q = context.lane;
        let by = context.number;
        let Some(number) = self.may_wait(context, whole, target) else {
            return Err(StepError::NotLawful);
        };
        self.lanes.lane_mut(q).wait(by, whole, target, number);
        Ok(number)
    }

    /// Ends the wait of what a context runs, and gives the mark.
    fn over(&mut self, context: Context, whole: bool, target: ItemId) -> Result<u32, StepError>
        ensures done { IfOk result (λ n.
            IsDone self.old (step_in context.lane context.number (over_deed whole target)) n self.new) }
        ensures refused { IfErr result (λ e.
            IsRefusal self.old (step_in context.lane context.number (over_deed whole target)) e
            × (self.new ≡ self.old)) }
    {
        let q = context.lane;
        let by = context.number;
        let Some(number) = self.may_be_over(context, whole, target) else {
            return Err(StepError::NotLawful);
        };
        self.lanes.lane_mut(q).over(by);
        Ok(number)
    }

    /// Finishes what a context runs, and gives the number of its entry.
    fn finish(&mut self, context: Context, item: ItemId) -> Result<u32, StepError>
        ensures done { IfOk result (λ n.
            IsDone self.old (step_in context.lane context.number (DoFinish item)) n self.new) }
        ensures refused { IfErr result (λ e.
            IsRefusal self.old (step_in context.lane context.number (DoFinish item)) e × (self.new ≡ self.old)) }
    {
        let q = context.lane;
        let by = context.number;
        let Some(number) = self.may_finish(context, item) else {
            return Err(StepError::NotLawful);
        };
        self.lanes.lane_mut(q).finish(by);
        Ok(number)
    }

    /// Does what a context does, and gives its number.
    fn make(&mut self, context: Context, deed: HelpStep) -> Result<u32, StepError>
        ensures done { IfOk result (λ n. IsDone self.old (step_in context.lane context.number deed) n self.new) }
        ensures refused { IfErr result (λ e. IsRefusal self.old (step_in context.lane context.number deed) e
            × (self.new ≡ self.old)) }
    {
        match deed {
            HelpStep::Start(item) => self.start(context, item),
            HelpStep::Wait(target) => self.wait(context, false, target),
            HelpStep::WaitAll(target) => self.wait(context, true, target),
            HelpStep::Over(target) => self.over(context, false, target),
            HelpStep::OverAll(target) => self.over(context, true, target),
            HelpStep::Finish(item) => self.finish(context, item),
        }
    }

    /// Makes a step of a helper, and gives its number.
    fn help(&mut self, helper: Context, deed: HelpStep) -> Result<u32, StepError>
        ensures done { IfOk result (λ n. IsDone self.old (Help helper.lane helper.number deed) n self.new) }
        ensures refused { IfErr result (λ e. IsRefusal self.old (Help helper.lane helper.number deed) e
            × (self.new ≡ self.old)) }
    {
        if helper.number == 0 {
            return Err(StepError::NotLawful);
        }
        self.make(helper, deed)
    }

    /// The number that a step would give; none if it wouldn't be made, because it
    /// isn't lawful (30) or the numbers are used up (31).
    #[inline(always)]
    pub fn peek(&self, step: &Step) -> Option<u32>
        ensures some { IfSome result (λ n. IsDone self.now step.now n (machine_after self.now step.now)) }
        ensures none { IfNone result ((e : StepError) × IsRefusal self.now step.now e) }
    {
        match *step {
            Step::Queue(item) => match self.may_queue(item) {
                Some(u32::MAX) => None,
                number => number,
            },
            Step::Cancel(item) => self.may_cancel(item),
            Step::Start(q, item) => self.may_start(Context::rescuer(q), item),
            Step::Wait(q, target) => self.may_wait(Context::rescuer(q), false, target),
            Step::Over(q, target) => self.may_be_over(Context::rescuer(q), false, target),
            Step::WaitAll(q, target) => self.may_wait(Context::rescuer(q), true, target),
            Step::OverAll(q, target) => self.may_be_over(Context::rescuer(q), true, target),
            Step::Finish(q, item) => self.may_finish(Context::rescuer(q), item),
            Step::Help(lane, number, deed) => self.helper_may(Context { lane, number }, deed),
        }
    }

    /// Makes a step, and gives the number of the entry that is queued, removed,
    /// started or finished, or the mark of the wait that begins or is over.
    ///
    /// The error is `NotLawful` (30) exactly if the step isn't lawful, or `NumbersUsedUp` (31) exactly if a
    /// lawful queueing would get the number 4,294,967,295. After an error nothing is changed.
    #[inline(always)]
    pub fn step(&mut self, step: Step) -> Result<u32, StepError>
        ensures done { IfOk result (λ n. IsDone self.old step n self.new) }
        ensures refused { IfErr result (λ e. IsRefusal self.old step e × (self.new ≡ self.old)) }
    {
        match step {
            Step::Queue(item) => self.queue(item),
            Step::Cancel(item) => self.cancel(item),
            Step::Start(q, item) => self.start(Context::rescuer(q), item),
            Step::Wait(q, target) => self.wait(Context::rescuer(q), false, target),
            Step::Over(q, target) => self.over(Context::rescuer(q), false, target),
            Step::WaitAll(q, target) => self.wait(Context::rescuer(q), true, target),
            Step::OverAll(q, target) => self.over(Context::rescuer(q), true, target),
            Step::Finish(q, item) => self.finish(Context::rescuer(q), item),
            Step::Help(lane, number, deed) => self.help(Context { lane, number }, deed),
        }
    }

    /// Makes the steps of a list in order, up to the first that isn't made.
    ///
    /// The error has the index of that step, from 0, and the cause. The steps before
    /// it are made, and those after it aren't.
    pub fn run(&mut self, steps: &[Step]) -> Result<(), RunError>
        requires { length steps.now < 4294967295 }
        ensures done { IfOk result (λ _. AreDone self.old steps.now self.new) }
        ensures refused { IfErr result (λ e. AreDone self.old (take e.at steps.now) self.new
            × IfSome (slice_get steps.now e.at) (λ step. IsRefusal self.new step e.why) × (e.at < length steps.now)) }
    {
        let mut at = 0;
        for step in steps {
            if let Err(why) = self.step(*step) {
                return Err(RunError { at, why });
            }
            at += 1;
        }
        Ok(())
    }

    /// Whether nothing is unfinished on the lanes that have a rescuer.
    pub fn is_at_rest(&self) -> bool
        ensures { IsTrue result ↔ ((left : HasUnfinished self.now.state) → ¬ HasRescuer self.now.wiring left.lane) }
    {
        let lanes = self.lanes() as u16;
        for number in 0..lanes {
            let q = LaneId::new(number);
            if self.has_rescuer(q) && !self.lane(q).is_idle() {
                return false;
            }
        }
        true
    }

    /// Whether nothing is unfinished.
    pub fn is_idle(&self) -> bool
        ensures { IsTrue result ↔ (¬ HasUnfinished self.now.state) }
    {
        self.lanes.are_idle()
    }

    /// Whether an entry of an item is pending. An item that doesn't exist has none.
    pub fn is_pending(&self, item: ItemId) -> bool
        ensures { IsTrue result ↔ HasPending self.now.state item }
    {
        self.pending_entry(item).is_some()
    }
}
