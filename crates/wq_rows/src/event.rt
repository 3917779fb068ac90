//! Events, and the rows that record them.
//!
//! Queue, Cancel, Start, Wait, Over, WaitAll, OverAll, Finish and Help record steps of the machine, or that no step was
//! due. Ask and Told record a flush of an item from outside a workqueue: a caller asks whether the item has an
//! unfinished entry, and is told once each entry that it waits for is finished (`flush_work` in kernel/workqueue.c).
//! AskLane and ToldLane record the same for a whole workqueue (`flush_workqueue` there).

ghost use Rattle.std.specs.Prelude.{◌≡◌};
ghost use Rattle.wq_rows.specs.Packing.{help_kind as help_kind_of, kind_of, item_in, lane_in, helper_in};

use wq_core::HelpStep;
use wq_groups::LaneId;
use wq_items::ItemId;

/// What happened. Start, Wait, Over, WaitAll, OverAll and Finish are steps of the rescuer; Help is such a step of a
/// helper.
#[derive(Clone, Copy, Debug, PartialEq, Eq)]
pub enum Event {
    /// A request to queue the item.
    Queue(ItemId),
    /// A request to remove the pending entry of the item.
    Cancel(ItemId),
    /// The lane started its first pending entry whose item wasn't running: an entry of this item.
    Start(LaneId, ItemId),
    /// What the lane runs began to wait for this item.
    Wait(LaneId, ItemId),
    /// What the lane runs ended its wait for this item.
    Over(LaneId, ItemId),
    /// The lane finished what it ran, an entry of this item.
    Finish(LaneId, ItemId),
    /// A caller asked whether the item has an unfinished entry, to wait for it.
    Ask(ItemId),
    /// A caller that waited for the item was told that its wait is over.
    Told(ItemId),
    /// What the lane runs began to wait for the whole lane of this item.
    WaitAll(LaneId, ItemId),
    /// What the lane runs ended its wait for the whole lane of this item.
    OverAll(LaneId, ItemId),
    /// A caller asked whether the lane has an unfinished entry, to wait for the whole lane.
    AskLane(LaneId),
    /// A caller that waited for the whole lane was told that its wait is over.
    ToldLane(LaneId),
    /// A helper of the lane made this step, with what it runs. The helpers of a lane are numbered from 1 to at most 8.
    Help(LaneId, u8, HelpStep),
}

/// A row of a history: what happened, and the outcome.
#[derive(Clone, Copy, Debug, PartialEq, Eq)]
pub struct Row {
    /// What happened.
    pub event: Event,
    /// The outcome. For Queue, whether the item was accepted; for Cancel, whether an entry was removed; for Wait and
    /// Ask, whether the item had an unfinished entry; for WaitAll, whether the lane of the item had one; for AskLane,
    /// whether the lane had one; for a helper's step, the same as for the rescuer's. For all others, true.
    pub yes: bool,
    /// The number of the entry that was queued, removed, started or finished, or the mark of a wait or an ask. 0 if
    /// nothing was queued or removed.
    pub number: u32,
}

/// The number of the kind of a helper's step: that of the rescuer's step.
#[inline(always)]
fn help_kind(step: &HelpStep) -> u8
    ensures { result ≡ help_kind_of step.now }
{
    match step {
        HelpStep::Start(_) => 3,
        HelpStep::Wait(_) => 4,
        HelpStep::Over(_) => 5,
        HelpStep::Finish(_) => 6,
        HelpStep::WaitAll(_) => 9,
        HelpStep::OverAll(_) => 10,
    }
}

impl Event {
    /// The number of the kind of the event. A helper's step has the kind of the rescuer's.
    #[inline(always)]
    pub(crate) fn kind(&self) -> u8
        ensures { result ≡ kind_of self.now }
    {
        match self {
            Event::Queue(_) => 1,
            Event::Cancel(_) => 2,
            Event::Start(..) => 3,
            Event::Wait(..) => 4,
            Event::Over(..) => 5,
            Event::Finish(..) => 6,
            Event::Ask(_) => 7,
            Event::Told(_) => 8,
            Event::WaitAll(..) => 9,
            Event::OverAll(..) => 10,
            Event::AskLane(_) => 11,
            Event::ToldLane(_) => 12,
            Event::Help(_, _, step) => help_kind(step),
        }
    }

    /// The item of the event. For a wait and its end, that is the target of the wait. AskLane and ToldLane have none:
    /// for them it is item 0, which means nothing.
    #[inline(always)]
    pub fn item(&self) -> ItemId
        ensures { result ≡ item_in self.now }
    {
        match *self {
            Event::Queue(item) => item,
            Event::Cancel(item) => item,
            Event::Start(_, item) => item,
            Event::Wait(_, target) => target,
            Event::Over(_, target) => target,
            Event::Finish(_, item) => item,
            Event::Ask(item) => item,
            Event::Told(item) => item,
            Event::WaitAll(_, target) => target,
            Event::OverAll(_, target) => target,
            Event::AskLane(_) | Event::ToldLane(_) => ItemId::new(0),
            Event::Help(_, _, step) => step.item(),
        }
    }

    /// The number of the lane of the event; 0 if it has none.
    #[inline(always)]
    pub(crate) fn lane(&self) -> u16
        ensures { result ≡ lane_in self.now }
    {
        match *self {
            Event::Start(lane, _)
            | Event::Wait(lane, _)
            | Event::Over(lane, _)
            | Event::Finish(lane, _)
            | Event::WaitAll(lane, _)
            | Event::OverAll(lane, _)
            | Event::AskLane(lane)
            | Event::ToldLane(lane)
            | Event::Help(lane, _, _) => lane.get(),
            Event::Queue(_) | Event::Cancel(_) | Event::Ask(_) | Event::Told(_) => 0,
        }
    }

    /// The number of the helper that made the step; 0 if none did.
    #[inline(always)]
    pub(crate) fn helper(&self) -> u8
        ensures { result ≡ helper_in self.now }
    {
        match *self {
            Event::Help(_, helper, _) => helper,
            _ => 0,
        }
    }
}
