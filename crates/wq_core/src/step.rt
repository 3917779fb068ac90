//! Steps of the machine, and why a step isn't made.
//!
//! Queue and Cancel are `queue_work` and `cancel_work`. The other steps are what the rescuer of a workqueue does: it
//! takes the next work (Start), whose function may call `flush_work` (Wait) or `flush_workqueue` (WaitAll), which
//! return once the wait is over (Over, OverAll); and then the function ends (Finish). They are those of
//! kernel/workqueue.c. A helper, as another worker of the workqueue, does the same (Help). Nothing is computed here,
//! and each call takes constant time.

ghost use Rattle.std.specs.Prelude.{◌≡◌};
ghost use Rattle.wq_core.specs.Held.{step_code};
ghost use Rattle.wq_core.specs.Rules.{wait_of, over_of, wait_deed, over_deed, deed_item, step_in};

use thiserror::Error;
use wq_groups::LaneId;
use wq_items::ItemId;

/// An execution context of a lane: its rescuer, or one of its helpers.
#[derive(Clone, Copy, Debug, PartialEq, Eq)]
pub struct Context {
    /// The lane.
    pub lane: LaneId,
    /// 0 is the lane's rescuer, and from 1 on come its helpers.
    pub number: u8,
}

impl Context {
    /// The rescuer of a lane.
    pub fn rescuer(lane: LaneId) -> Context
        ensures lane { result.lane ≡ lane }
        ensures number { result.number ≡ 0 }
    {
        Context { lane, number: 0 }
    }
}

/// What a context does.
#[derive(Clone, Copy, Debug, PartialEq, Eq)]
pub enum HelpStep {
    /// It starts the pending entry of this item.
    Start(ItemId),
    /// What it runs begins to wait for this item.
    Wait(ItemId),
    /// What it runs begins to wait for the whole lane of this item.
    WaitAll(ItemId),
    /// The wait of what it runs for this item is over.
    Over(ItemId),
    /// The wait of what it runs for the whole lane of this item is over.
    OverAll(ItemId),
    /// It finishes what it runs, an entry of this item.
    Finish(ItemId),
}

impl HelpStep {
    /// What a context runs begins to wait for an item, or for the whole lane of the item.
    pub fn wait_of(whole: bool, item: ItemId) -> HelpStep
        ensures { result ≡ wait_deed whole item }
    {
        if whole {
            HelpStep::WaitAll(item)
        } else {
            HelpStep::Wait(item)
        }
    }

    /// The end of such a wait.
    pub fn over_of(whole: bool, item: ItemId) -> HelpStep
        ensures { result ≡ over_deed whole item }
    {
        if whole {
            HelpStep::OverAll(item)
        } else {
            HelpStep::Over(item)
        }
    }

    /// The item that it names.
    pub fn item(&self) -> ItemId
        ensures { result ≡ deed_item self.now }
    {
        match *self {
            HelpStep::Start(item)
            | HelpStep::Wait(item)
            | HelpStep::WaitAll(item)
            | HelpStep::Over(item)
            | HelpStep::OverAll(item)
            | HelpStep::Finish(item) => item,
        }
    }
}

/// One step.
#[derive(Clone, Copy, Debug, PartialEq, Eq)]
pub enum Step {
    /// The item is queued on its lane.
    Queue(ItemId),
    /// The pending entry of the item is removed from its lane.
    Cancel(ItemId),
    /// The lane's rescuer starts the first pending entry whose item isn't running, which is of this item.
    Start(LaneId, ItemId),
    /// What the lane's rescuer runs begins to wait for this item.
    Wait(LaneId, ItemId),
    /// The wait of what the lane's rescuer runs for this item is over.
    Over(LaneId, ItemId),
    /// What the lane's rescuer runs begins to wait for the whole lane of this item.
    WaitAll(LaneId, ItemId),
    /// The wait of what the lane's rescuer runs for the whole lane of this item is over.
    OverAll(LaneId, ItemId),
    /// The lane's rescuer finishes what it runs, an entry of this item.
    Finish(LaneId, ItemId),
    /// What a helper of the lane does. Helpers are numbered from 1.
    Help(LaneId, u8, HelpStep),
}

impl Step {
    /// What a context does, as a step.
    #[inline(always)]
    pub fn of(context: Context, deed: HelpStep) -> Step
        ensures { result ≡ step_in context.lane context.number deed }
    {
        let q = context.lane;
        if context.number > 0 {
            return Step::Help(q, context.number, deed);
        }
        match deed {
            HelpStep::Start(item) => Step::Start(q, item),
            HelpStep::Wait(target) => Step::Wait(q, target),
            HelpStep::WaitAll(target) => Step::WaitAll(q, target),
            HelpStep::Over(target) => Step::Over(q, target),
            HelpStep::OverAll(target) => Step::OverAll(q, target),
            HelpStep::Finish(item) => Step::Finish(q, item),
        }
    }

    /// What a lane's rescuer runs begins to wait for an item, or for the whole lane of the item.
    pub fn wait_of(whole: bool, q: LaneId, item: ItemId) -> Step
        ensures { result ≡ wait_of whole q item }
    {
        if whole {
            Step::WaitAll(q, item)
        } else {
            Step::Wait(q, item)
        }
    }

    /// The end of such a wait.
    pub fn over_of(whole: bool, q: LaneId, item: ItemId) -> Step
        ensures { result ≡ over_of whole q item }
    {
        if whole {
            Step::OverAll(q, item)
        } else {
            Step::Over(q, item)
        }
    }
}

/// Why a step isn't made.
#[derive(Clone, Copy, Debug, PartialEq, Eq, Error)]
pub enum StepError {
    /// The step isn't lawful (30).
    #[error("the step isn't lawful")]
    NotLawful,
    /// The queueing is lawful, but the next number is 4,294,967,295, which no entry is given (31).
    #[error("the numbers are used up")]
    NumbersUsedUp,
}

impl StepError {
    /// The number of the refusal: 30 or 31.
    pub fn code(self) -> u32
        ensures { result ≡ step_code self }
    {
        match self {
            StepError::NotLawful => 30,
            StepError::NumbersUsedUp => 31,
        }
    }
}

/// Which step of a list isn't made, and why.
#[derive(Clone, Copy, Debug, PartialEq, Eq, Error)]
#[error("step {at}: {why}")]
pub struct RunError {
    /// How many steps were made before it.
    pub at: u32,
    /// Why it isn't made.
    pub why: StepError,
}
