//! Kinds of rows that are counted: those of all events but starts, which no seat counts.
//!
//! The events are those of wq_rows. A helper's step counts as the same step of the rescuer. Asks about a whole lane,
//! and the ends of such waits, are counted for the lane; all others for an item. Each call takes constant time.

ghost use Rattle.std.specs.Prelude.{◌≡◌};
ghost use Rattle.wq_counts.specs.Counting.{help_kind_in, kind_in, kind_place, lane_kind_place};

use wq_core::HelpStep;
use wq_rows::Event;

/// The kind of a row that is counted for an item.
#[derive(Clone, Copy, Debug, PartialEq, Eq)]
pub enum Kind {
    /// A request to queue the item.
    Queue,
    /// A request to remove the pending entry of the item.
    Cancel,
    /// A lane began to wait for the item.
    Wait,
    /// A lane ended its wait for the item.
    Over,
    /// A caller asked whether the item has an unfinished entry.
    Ask,
    /// A caller that waited for the item was told that its wait is over.
    Told,
    /// An entry of the item was finished.
    Finish,
    /// A lane began to wait for the whole lane of the item.
    WaitAll,
    /// A lane ended its wait for the whole lane of the item.
    OverAll,
}

/// The kind of a row that is counted for a lane.
#[derive(Clone, Copy, Debug, PartialEq, Eq)]
pub enum LaneKind {
    /// A caller asked whether the lane has an unfinished entry.
    Ask,
    /// A caller that waited for the lane was told that its wait is over.
    Told,
}

impl Kind {
    /// All kinds, in order.
    pub const ALL: [Kind; 9] = [
        Kind::Queue,
        Kind::Cancel,
        Kind::Wait,
        Kind::Over,
        Kind::Ask,
        Kind::Told,
        Kind::Finish,
        Kind::WaitAll,
        Kind::OverAll,
    ];

    /// The kind of a helper's step: that of the rescuer's step; `None` for a start.
    pub(crate) fn of_help(step: &HelpStep) -> Option<Self>
        ensures { result ≡ help_kind_in step.now }
    {
        match step {
            HelpStep::Start(_) => None,
            HelpStep::Wait(_) => Some(Kind::Wait),
            HelpStep::WaitAll(_) => Some(Kind::WaitAll),
            HelpStep::Over(_) => Some(Kind::Over),
            HelpStep::OverAll(_) => Some(Kind::OverAll),
            HelpStep::Finish(_) => Some(Kind::Finish),
        }
    }

    /// The kind of an event that is counted for its item; `None` for a start and for the events of a whole lane.
    pub fn of(event: &Event) -> Option<Self>
        ensures { result ≡ kind_in event.now }
    {
        match event {
            Event::Queue(_) => Some(Kind::Queue),
            Event::Cancel(_) => Some(Kind::Cancel),
            Event::Start(..) => None,
            Event::Wait(..) => Some(Kind::Wait),
            Event::Over(..) => Some(Kind::Over),
            Event::Finish(..) => Some(Kind::Finish),
            Event::Ask(_) => Some(Kind::Ask),
            Event::Told(_) => Some(Kind::Told),
            Event::WaitAll(..) => Some(Kind::WaitAll),
            Event::OverAll(..) => Some(Kind::OverAll),
            Event::AskLane(_) | Event::ToldLane(_) => None,
            Event::Help(_, _, step) => Kind::of_help(step),
        }
    }

    /// The place of the kind among all kinds, from 0.
    pub(crate) fn place(self) -> usize
        ensures { result ≡ kind_place self }
    {
        match self {
            Kind::Queue => 0,
            Kind::Cancel => 1,
            Kind::Wait => 2,
            Kind::Over => 3,
            Kind::Ask => 4,
            Kind::Told => 5,
            Kind::Finish => 6,
            Kind::WaitAll => 7,
            Kind::OverAll => 8,
        }
    }
}

impl LaneKind {
    /// The place of the kind among all kinds, from 9: after those of an item.
    pub(crate) fn place(self) -> usize
        ensures { result ≡ lane_kind_place self }
    {
        match self {
            LaneKind::Ask => 9,
            LaneKind::Told => 10,
        }
    }
}
