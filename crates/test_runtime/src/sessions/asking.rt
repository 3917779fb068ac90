//! The calls of a runtime that a text asks for, line by line. Reading a line takes time linear in its length.

use crate::testbed::{helper_of, item_of, lane_of};
use std::alloc::Global;
use wq_groups::LaneId;
use wq_items::{ItemId, ItemTable};
use wq_text::{Words, number};

/// A call that counts in a seat.
#[derive(Clone, Copy)]
pub(crate) enum Counted {
    Queue(LaneId, ItemId),
    Cancel(ItemId),
    Flush(ItemId),
    CancelSync(ItemId),
    FlushLane(LaneId),
    Wait(LaneId, ItemId),
    WaitAll(LaneId, ItemId),
    Finish(LaneId, ItemId),
    HelpWait(LaneId, u8, ItemId),
    HelpWaitAll(LaneId, u8, ItemId),
    HelpFinish(LaneId, u8, ItemId),
}

/// What a line asks for.
#[derive(Clone, Copy)]
pub(crate) enum RuntimeCall {
    Counted(Counted),
    /// One seat more.
    Seat,
    /// This many more seats.
    Seats(u32),
    /// The calls that follow count in the seat with this number.
    Use(u32),
    /// What the seat that is in use has counted of an item.
    Tell(ItemId),
    /// What the seat that is in use has counted of a lane.
    TellLane(LaneId),
    Next(LaneId),
    HelpNext(LaneId, u8),
    Lanes,
    Lane(ItemId),
    /// How many helpers a lane has.
    Helpers(LaneId),
    Destroy,
    /// Closes with this many of the seats.
    Close(u32),
}

/// The call that this word alone asks for.
fn call_alone(word: &[u8]) -> Option<RuntimeCall> {
    match word {
        b"seat" => Some(RuntimeCall::Seat),
        b"lanes" => Some(RuntimeCall::Lanes),
        b"destroy" => Some(RuntimeCall::Destroy),
        _ => None,
    }
}

/// The call that this word asks for, with one word after it.
fn call_of(table: &ItemTable<'_, Global>, word: &[u8], what: &[u8]) -> Option<RuntimeCall> {
    let call = match word {
        b"cancel" => RuntimeCall::Counted(Counted::Cancel(item_of(table, what))),
        b"flush" => RuntimeCall::Counted(Counted::Flush(item_of(table, what))),
        b"sync" => RuntimeCall::Counted(Counted::CancelSync(item_of(table, what))),
        b"lane" => RuntimeCall::Lane(item_of(table, what)),
        b"flushwq" => RuntimeCall::Counted(Counted::FlushLane(lane_of(what)?)),
        b"counted" => RuntimeCall::Tell(item_of(table, what)),
        b"countedlane" => RuntimeCall::TellLane(lane_of(what)?),
        b"next" => RuntimeCall::Next(lane_of(what)?),
        b"helpers" => RuntimeCall::Helpers(lane_of(what)?),
        b"seats" => RuntimeCall::Seats(number(what)?),
        b"use" => RuntimeCall::Use(number(what)?),
        b"close" => RuntimeCall::Close(number(what)?),
        _ => return None,
    };
    Some(call)
}

/// The call that this word asks for, of an item on a lane.
fn call_on_lane(word: &[u8], q: LaneId, item: ItemId) -> Option<RuntimeCall> {
    let call = match word {
        b"queue" => Counted::Queue(q, item),
        b"wait" => Counted::Wait(q, item),
        b"waitall" => Counted::WaitAll(q, item),
        b"finish" => Counted::Finish(q, item),
        _ => return None,
    };
    Some(RuntimeCall::Counted(call))
}

/// The call of a helper that this word asks for, of an item.
fn help_on_lane(word: &[u8], q: LaneId, h: u8, item: ItemId) -> Option<RuntimeCall> {
    let call = match word {
        b"wait" => Counted::HelpWait(q, h, item),
        b"waitall" => Counted::HelpWaitAll(q, h, item),
        b"finish" => Counted::HelpFinish(q, h, item),
        _ => return None,
    };
    Some(RuntimeCall::Counted(call))
}

/// The call of a helper that the words after `help` ask for; none if they have the form of no call.
fn read_help(table: &ItemTable<'_, Global>, mut words: Words<'_>) -> Option<RuntimeCall> {
    let word = words.next()?;
    let q = lane_of(words.next()?.bytes())?;
    let h = helper_of(words.next()?.bytes())?;
    match (words.next(), words.next()) {
        (None, _) if word.bytes() == b"next".as_slice() => Some(RuntimeCall::HelpNext(q, h)),
        (Some(name), None) => help_on_lane(word.bytes(), q, h, item_of(table, name.bytes())),
        _ => None,
    }
}

/// The call that a line asks for by its first word and the words after it; none if it has the form of no call.
pub(crate) fn read_call(
    table: &ItemTable<'_, Global>,
    word: &[u8],
    mut words: Words<'_>,
) -> Option<RuntimeCall> {
    if word == b"help".as_slice() {
        return read_help(table, words);
    }
    match (words.next(), words.next(), words.next()) {
        (None, _, _) => call_alone(word),
        (Some(what), None, _) => call_of(table, word, what.bytes()),
        (Some(q), Some(name), None) => {
            call_on_lane(word, lane_of(q.bytes())?, item_of(table, name.bytes()))
        }
        _ => None,
    }
}
