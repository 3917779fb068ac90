//! What bodies and callers are to do, line by line of a text. A line takes constant time, and that of finding its item.

use crate::sessions::lines::Listener;
use crate::testbed::{item_of, lane_of};
use std::alloc::{AllocError, Global};
use wq_groups::LaneId;
use wq_items::{ItemId, ItemTable};
use wq_script::Act;
use wq_text::{Words, number};

/// One thing that a body does in each execution, or a caller does once.
#[derive(Clone, Copy)]
pub(crate) enum Deed {
    Queue(ItemId),
    Flush(ItemId),
    Cancel(ItemId),
    /// A body skips this.
    CancelSync(ItemId),
    /// A body waits for the whole lane of this item. A caller skips this.
    FlushAll(ItemId),
    /// A caller flushes this lane. A body skips this.
    FlushLane(LaneId),
    /// A body gives up with this code. A caller skips this.
    GiveUp(u32),
    /// Says that it is here, and looks for all others.
    Meet,
    /// Looks for the end, and goes on for a while.
    Linger,
    /// Goes on for a while, and counts itself among the doers that did so.
    Dawdle,
    /// Sees whether this many doers have dawdled.
    Seen(u32),
    /// A body goes on for a while, and sees whether its item is run only once at a time. A caller skips this.
    Alone,
    /// A caller says that the end has come, destroys the runtime, and looks whether the lingering doers have ended. A
    /// body skips this.
    Destroy,
}

/// What a line says.
#[derive(Clone, Copy)]
enum DeedLine {
    /// A body begins, that of the next rescuer or helper.
    Body,
    /// A caller begins.
    Caller,
    /// A deed of the body or caller that has begun.
    Deed(Deed),
}

/// What this word says alone.
fn entry_alone(word: &[u8]) -> Option<DeedLine> {
    match word {
        b"body" => Some(DeedLine::Body),
        b"caller" => Some(DeedLine::Caller),
        b"meet" => Some(DeedLine::Deed(Deed::Meet)),
        b"linger" => Some(DeedLine::Deed(Deed::Linger)),
        b"dawdle" => Some(DeedLine::Deed(Deed::Dawdle)),
        b"alone" => Some(DeedLine::Deed(Deed::Alone)),
        b"destroy" => Some(DeedLine::Deed(Deed::Destroy)),
        _ => None,
    }
}

/// The deed of this word, with one word after it.
fn deed_of(table: &ItemTable<'_, Global>, word: &[u8], what: &[u8]) -> Option<Deed> {
    let deed = match word {
        b"queue" => Deed::Queue(item_of(table, what)),
        b"flush" => Deed::Flush(item_of(table, what)),
        b"cancel" => Deed::Cancel(item_of(table, what)),
        b"sync" => Deed::CancelSync(item_of(table, what)),
        b"flush_wq" => Deed::FlushAll(item_of(table, what)),
        b"flushwq" => Deed::FlushLane(lane_of(what)?),
        b"fail" => Deed::GiveUp(number(what)?),
        b"seen" => Deed::Seen(number(what)?),
        _ => return None,
    };
    Some(deed)
}

/// What a line says by its first word and the words after it; none if it doesn't have the form of any.
fn read_entry(
    table: &ItemTable<'_, Global>,
    word: &[u8],
    mut words: Words<'_>,
) -> Option<DeedLine> {
    match (words.next(), words.next()) {
        (None, _) => entry_alone(word),
        (Some(what), None) => Some(DeedLine::Deed(deed_of(table, word, what.bytes())?)),
        (Some(_), Some(_)) => None,
    }
}

/// What each body and each caller does, one deed after the other.
#[derive(Drop)]
pub(crate) struct Plot {
    pub(crate) bodies: Vec<Vec<Deed>>,
    pub(crate) callers: Vec<Vec<Deed>>,
    /// Whether the last one that was begun is a body.
    is_body: bool,
    alloc: Global,
}

impl Plot {
    /// A plot in which nobody has begun.
    pub(crate) fn new(alloc: Global) -> Self {
        Plot {
            bodies: Vec::new(alloc),
            callers: Vec::new(alloc),
            is_body: true,
            alloc,
        }
    }

    /// How many bodies and callers there are.
    pub(crate) fn count(&self) -> usize {
        self.bodies.len().saturating_add(self.callers.len())
    }

    /// The bodies or the callers, whichever the last one belongs to that was begun.
    fn begun(&mut self) -> &mut Vec<Vec<Deed>> {
        if self.is_body {
            &mut self.bodies
        } else {
            &mut self.callers
        }
    }

    /// Begins a body or a caller.
    fn begin(&mut self, is_body: bool) -> Result<(), AllocError> {
        self.is_body = is_body;
        let deeds = Vec::new(self.alloc);
        self.begun().push(deeds)?;
        Ok(())
    }

    /// Adds a deed. Returns false if no doer has begun.
    fn add(&mut self, deed: Deed) -> Result<bool, AllocError> {
        match self.begun().last_mut() {
            Some(deeds) => {
                deeds.push(deed)?;
                Ok(true)
            }
            None => Ok(false),
        }
    }
}

impl Listener for Plot {
    fn hear(
        &mut self,
        table: &ItemTable<'_, Global>,
        word: &[u8],
        words: Words<'_>,
        _out: &mut String,
    ) -> Result<bool, AllocError> {
        match read_entry(table, word, words) {
            Some(DeedLine::Body) => {
                self.begin(true)?;
                Ok(true)
            }
            Some(DeedLine::Caller) => {
                self.begin(false)?;
                Ok(true)
            }
            Some(DeedLine::Deed(deed)) => self.add(deed),
            None => Ok(false),
        }
    }
}

/// The call of a scripted caller that is this deed, if it is one.
fn act_of(deed: Deed) -> Option<Act> {
    match deed {
        Deed::Queue(item) => Some(Act::Queue(item)),
        Deed::Flush(item) => Some(Act::Flush(item)),
        Deed::Cancel(item) => Some(Act::Cancel(item)),
        Deed::CancelSync(item) => Some(Act::CancelSync(item)),
        Deed::FlushLane(q) => Some(Act::FlushLane(q)),
        Deed::FlushAll(_) | Deed::GiveUp(_) | Deed::Alone => None,
        Deed::Meet | Deed::Linger | Deed::Dawdle | Deed::Seen(_) | Deed::Destroy => None,
    }
}

/// The call that a line asks for; none if it has the form of no call.
fn read_act(table: &ItemTable<'_, Global>, word: &[u8], words: Words<'_>) -> Option<Act> {
    match read_entry(table, word, words) {
        Some(DeedLine::Deed(deed)) => act_of(deed),
        _ => None,
    }
}

impl Listener for Vec<Act> {
    fn hear(
        &mut self,
        table: &ItemTable<'_, Global>,
        word: &[u8],
        words: Words<'_>,
        _out: &mut String,
    ) -> Result<bool, AllocError> {
        let Some(act) = read_act(table, word, words) else {
            return Ok(false);
        };
        self.push(act)?;
        Ok(true)
    }
}
