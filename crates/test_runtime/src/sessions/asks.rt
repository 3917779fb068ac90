//! The asks that a book handed out, by their numbers, and what the book answers to them.

use std::alloc::{AllocError, Global};
use wq_history::{Ask, Asked, Book, Told};
use wq_items::ItemId;

/// Asks about an item, and keeps what is handed out.
pub(crate) fn ask(
    book: &mut Book<Global>,
    asks: &mut Vec<Option<Asked>>,
    item: ItemId,
    out: &mut String,
) -> Result<(), AllocError> {
    asks.reserve(1)?;
    match book.ask(item) {
        Ok(Ask::Idle) => out.push_str("idle"),
        Ok(Ask::Waiting(asked)) => {
            let mark = asked.mark();
            asks.push_reserved(Some(asked));
            write!(out, "waiting {mark}")
        }
        Err(error) => write!(out, "refused {}", error.code()),
    }
}

/// Puts an ask back.
fn put_back(slot: &mut Option<Asked>, asked: Asked) {
    match slot.replace(asked) {
        Some(other) => other.give_up(),
        None => {}
    }
}

/// Hands in the ask of a slot. Returns false if the slot has none.
fn tell_slot(
    book: &mut Book<Global>,
    slot: &mut Option<Asked>,
    out: &mut String,
) -> Result<bool, AllocError> {
    let Some(asked) = slot.take() else {
        return Ok(false);
    };
    match book.told(asked) {
        Told::Done => out.push_str("done")?,
        Told::NotYet(asked) => {
            put_back(slot, asked);
            out.push_str("not yet")?;
        }
        Told::NotAsked(asked) => {
            asked.give_up();
            out.push_str("refused 65")?;
        }
    }
    Ok(true)
}

/// Hands in the ask with this number. Returns false if there is no such ask.
pub(crate) fn tell(
    book: &mut Book<Global>,
    asks: &mut [Option<Asked>],
    number: u32,
    out: &mut String,
) -> Result<bool, AllocError> {
    match asks.get_mut(number as usize) {
        Some(slot) => tell_slot(book, slot, out),
        None => Ok(false),
    }
}

/// Gives up the asks that are left.
pub(crate) fn give_up_all(mut asks: Vec<Option<Asked>>) {
    while let Some(slot) = asks.pop() {
        match slot {
            Some(asked) => asked.give_up(),
            None => {}
        }
    }
    asks.destroy_empty();
}
