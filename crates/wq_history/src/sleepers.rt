//! Callers and contexts that sleep until something has happened to a book, and which of them an event wakes.
//!
//! Sleepers for which the same events count are a group: they sleep on one condition variable. Nothing is computed
//! here, and each call takes constant time.

ghost use Rattle.std.specs.Prelude.{◌≡◌};
ghost use Rattle.wq_history.specs.Waits.{nobody, one_context, by_closing};

use wq_groups::LaneId;
use wq_items::ItemId;

/// A group of sleepers.
#[derive(Clone, Copy, Debug, PartialEq, Eq)]
pub enum Sleepers {
    /// The contexts of this lane that have nothing to start.
    Contexts(LaneId),
    /// Whoever waits until entries of this item have ended: callers, and what contexts of any lane run.
    ItemWaiters(ItemId),
    /// Whoever waits until entries of this lane have ended, of whichever items.
    LaneWaiters(LaneId),
    /// Callers who wait until all is done: the book is closed, and nothing is unfinished.
    Destroyers,
}

/// Which contexts are woken.
#[derive(Clone, Copy, Debug, PartialEq, Eq)]
pub enum WokenContexts {
    /// None.
    Nobody,
    /// One of this lane, if one sleeps there.
    One(LaneId),
    /// All of this lane.
    All(LaneId),
    /// All of all lanes.
    Everybody,
}

/// Which sleepers are woken.
#[derive(Clone, Copy, Debug, PartialEq, Eq)]
pub struct Wake {
    /// Which contexts.
    pub contexts: WokenContexts,
    /// All who wait until entries of this item have ended.
    pub item_waiters: Option<ItemId>,
    /// All who wait until entries of this lane have ended.
    pub lane_waiters: Option<LaneId>,
    /// Whether all are woken that wait until everything is done.
    pub destroyers: bool,
}

impl Wake {
    /// Nobody.
    pub fn nobody() -> Wake
        ensures { result ≡ nobody }
    {
        Wake {
            contexts: WokenContexts::Nobody,
            item_waiters: None,
            lane_waiters: None,
            destroyers: false,
        }
    }

    /// One context of a lane.
    pub fn one_context(q: LaneId) -> Wake
        ensures { result ≡ one_context q }
    {
        Wake {
            contexts: WokenContexts::One(q),
            item_waiters: None,
            lane_waiters: None,
            destroyers: false,
        }
    }

    /// The sleepers that a closing wakes: all contexts of all lanes, and all that wait until everything is done.
    pub fn by_closing() -> Wake
        ensures { result ≡ by_closing }
    {
        Wake {
            contexts: WokenContexts::Everybody,
            item_waiters: None,
            lane_waiters: None,
            destroyers: true,
        }
    }
}
