//! The asks about lanes that a book handed out, by their numbers, and what the book answers to them.
//!
//! As `asks`, but for lanes: an ask about a lane has a type of its own. Each takes the time of its call.

use std::alloc::{AllocError, Global};
use wq_groups::LaneId;
use wq_history::{Book, LaneAsk, LaneAsked, LaneTold};

/// Asks about a lane, and keeps what is handed out.
pub(crate) fn ask(
    book: &mut Book<Global>,
    asks: &mut Vec<Option<LaneAsked>>,
    q: LaneId,
    out: &mut String,
) -> Result<(), AllocError> {
    asks.reserve(1)?;
    match book.ask_lane(q) {
        Ok(LaneAsk::Idle) => out.push_str("idle"),
        Ok(LaneAsk::Waiting(asked)) => {
            let mark = asked.mark();
            asks.push_reserved(Some(asked));
            write!(out, "waiting {mark}")
        }
        Err(error) => write!(out, "refused {}", error.code()),
    }
}

/// Puts an ask back.
fn put_back(slot: &mut Option<LaneAsked>, asked: LaneAsked) {
    match slot.replace(asked) {
        Some(other) => other.give_up(),
        None => {}
    }
}

/// Hands in the ask of a slot. Returns false if the slot has none.
fn tell_slot(
    book: &mut Book<Global>,
    slot: &mut Option<LaneAsked>,
    out: &mut String,
) -> Result<bool, AllocError> {
    let Some(asked) = slot.take() else {
        return Ok(false);
    };
    match book.told_lane(asked) {
        LaneTold::Done => out.push_str("done")?,
        LaneTold::NotYet(asked) => {
            put_back(slot, asked);
            out.push_str("not yet")?;
        }
        LaneTold::NotAsked(asked) => {
            asked.give_up();
            out.push_str("refused 65")?;
        }
    }
    Ok(true)
}

/// Hands in the ask with this number. Returns false if there is no such ask.
pub(crate) fn tell(
    book: &mut Book<Global>,
    asks: &mut [Option<LaneAsked>],
    number: u32,
    out: &mut String,
) -> Result<bool, AllocError> {
    match asks.get_mut(number as usize) {
        Some(slot) => tell_slot(book, slot, out),
        None => Ok(false),
    }
}

/// Gives up the asks that are left.
pub(crate) fn give_up_all(mut asks: Vec<Option<LaneAsked>>) {
    while let Some(slot) = asks.pop() {
        match slot {
            Some(asked) => asked.give_up(),
            None => {}
        }
    }
    asks.destroy_empty();
}
