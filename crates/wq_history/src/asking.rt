//! Callers who wait for an item, or for a whole lane: what they are answered, and what they hold while they wait.
//!
//! A caller asks once. Then it is told that its wait is over, perhaps after "not yet" a few times (`flush_work` and
//! `flush_workqueue` in kernel/workqueue.c). Nothing is computed here.

ghost use Rattle.std.specs.Prelude.{◌≡◌};
ghost use Rattle.wq_history.specs.Events.{subject_in, ask_event, told_event};

use wq_groups::LaneId;
use wq_items::ItemId;
use wq_rows::Event;

/// What an ask is about.
#[derive(Clone, Copy, Debug, PartialEq, Eq)]
pub enum Subject {
    /// An item: the caller waits for its entries.
    Item(ItemId),
    /// A lane: the caller waits for all entries on it.
    Lane(LaneId),
}

impl Subject {
    /// What an event is about: a lane for AskLane and ToldLane, and an item for all others.
    pub(crate) fn of(event: &Event) -> Subject
        ensures { result ≡ subject_in event.now }
    {
        match *event {
            Event::AskLane(q) | Event::ToldLane(q) => Subject::Lane(q),
            _ => Subject::Item(event.item()),
        }
    }

    /// The event of an ask about it.
    pub(crate) fn ask(&self) -> Event
        ensures { result ≡ ask_event self.now }
    {
        match *self {
            Subject::Item(item) => Event::Ask(item),
            Subject::Lane(q) => Event::AskLane(q),
        }
    }

    /// The event of a caller who asked about it and is told.
    pub(crate) fn told(&self) -> Event
        ensures { result ≡ told_event self.now }
    {
        match *self {
            Subject::Item(item) => Event::Told(item),
            Subject::Lane(q) => Event::ToldLane(q),
        }
    }
}

/// An ask about an item that waits. It can't be copied, and isn't dropped by itself: it ends when the book says that
/// the wait is over, or when its holder gives it up.
pub struct Asked {
    pub(crate) item: ItemId,
    pub(crate) mark: u32,
}

impl Asked {
    /// The item that is waited for.
    pub fn item(&self) -> ItemId
        ensures { result ≡ self.now.item }
    {
        self.item
    }

    /// The number that the next queueing would have got when the ask came. The
    /// caller waits for entries with lower numbers.
    pub fn mark(&self) -> u32
        ensures { result ≡ self.now.mark }
    {
        self.mark
    }

    /// Ends the ask although its wait isn't over. The book keeps a row for it, and counts it as one that waits, for
    /// good: what holds such a book can't be closed (71).
    pub fn give_up(self) {
        let Asked { item: _, mark: _ } = self;
    }
}

/// The answer to an ask about an item.
pub enum Ask {
    /// No entry of the item is unfinished.
    Idle,
    /// An entry is unfinished, and the caller waits for it.
    Waiting(Asked),
}

/// What a caller is told who waits for an item.
pub enum Told {
    /// The wait is over.
    Done,
    /// An entry that is waited for is unfinished.
    NotYet(Asked),
    /// No ask about this item waits in this book (65). This occurs only if an ask
    /// of another book is, or was, told here.
    NotAsked(Asked),
}

/// An ask about a whole lane that waits. It can't be copied, and isn't dropped by itself: it ends when the book says
/// that the wait is over, or when its holder gives it up.
pub struct LaneAsked {
    pub(crate) lane: LaneId,
    pub(crate) mark: u32,
}

impl LaneAsked {
    /// The lane that is waited for.
    pub fn lane(&self) -> LaneId
        ensures { result ≡ self.now.lane }
    {
        self.lane
    }

    /// The number that the next queueing would have got when the ask came. The
    /// caller waits for entries with lower numbers.
    pub fn mark(&self) -> u32
        ensures { result ≡ self.now.mark }
    {
        self.mark
    }

    /// Ends the ask although its wait isn't over. The book keeps a row for it, and counts it as one that waits, for
    /// good: what holds such a book can't be closed (71).
    pub fn give_up(self) {
        let LaneAsked { lane: _, mark: _ } = self;
    }
}

/// The answer to an ask about a lane.
pub enum LaneAsk {
    /// No entry of the lane is unfinished.
    Idle,
    /// An entry is unfinished, and the caller waits for each that was queued before.
    Waiting(LaneAsked),
}

/// What a caller is told who waits for a lane.
pub enum LaneTold {
    /// The wait is over.
    Done,
    /// An entry that is waited for is unfinished.
    NotYet(LaneAsked),
    /// No ask about this lane waits in this book (65). This occurs only if an ask
    /// of another book is, or was, told here.
    NotAsked(LaneAsked),
}
