//! What is printed of a closed runtime: its counts and its rows. A call takes time linear in the number of items, lanes
//! and rows.

use crate::testbed::printing::put_item;
use std::alloc::{AllocError, Global};
use wq_api::{Closed, Counts, Kind, Naming};
use wq_groups::LaneId;
use wq_items::{ItemId, ItemTable};

/// The word for a kind.
pub fn kind_word(kind: Kind) -> &'static str {
    match kind {
        Kind::Queue => "queue",
        Kind::Cancel => "cancel",
        Kind::Wait => "wait",
        Kind::Over => "over",
        Kind::Ask => "ask",
        Kind::Told => "told",
        Kind::Finish => "finish",
        Kind::WaitAll => "waitall",
        Kind::OverAll => "overall",
    }
}

/// Adds what was counted of an item and a kind with an answer, if anything was.
fn put_count(
    out: &mut String,
    table: &ItemTable<'_, Global>,
    item: ItemId,
    kind: Kind,
    answer: &str,
    count: u64,
) -> Result<(), AllocError> {
    if count == 0 {
        return Ok(());
    }
    out.push_str("made ")?;
    put_item(out, table, item)?;
    writeln!(out, " {} {answer} {count}", kind_word(kind))
}

/// Adds all that was counted of an item, kind by kind.
fn put_made_of(
    out: &mut String,
    table: &ItemTable<'_, Global>,
    counts: &Counts<Global>,
    item: ItemId,
) -> Result<(), AllocError> {
    for kind in Kind::ALL {
        put_count(out, table, item, kind, "yes", counts.made(item, kind, true))?;
        put_count(out, table, item, kind, "no", counts.made(item, kind, false))?;
    }
    Ok(())
}

/// Adds what was counted of a lane and a kind with an answer, if anything was.
fn put_lane_count(
    out: &mut String,
    q: LaneId,
    kind: &str,
    answer: &str,
    count: u64,
) -> Result<(), AllocError> {
    if count == 0 {
        return Ok(());
    }
    writeln!(out, "made lane {} {kind} {answer} {count}", q.get())
}

/// Adds all that was counted of a lane.
fn put_made_of_lane(
    out: &mut String,
    counts: &Counts<Global>,
    q: LaneId,
) -> Result<(), AllocError> {
    put_lane_count(out, q, "asklane", "yes", counts.asked_lane(q, true))?;
    put_lane_count(out, q, "asklane", "no", counts.asked_lane(q, false))?;
    put_lane_count(out, q, "toldlane", "yes", counts.told_lane(q))
}

/// Adds all that was counted, item by item and then lane by lane.
pub fn put_made(
    out: &mut String,
    table: &ItemTable<'_, Global>,
    lanes: usize,
    counts: &Counts<Global>,
) -> Result<(), AllocError> {
    for i in 0..table.len() {
        put_made_of(out, table, counts, ItemId::new(i))?;
    }
    for q in 0..u16::try_from(lanes).unwrap_or(u16::MAX) {
        put_made_of_lane(out, counts, LaneId::new(q))?;
    }
    writeln!(out, "total {}", counts.total())
}

/// Adds the number of rows, and each of them in hexadecimal digits.
pub fn put_rows(out: &mut String, packed: &[u8]) -> Result<(), AllocError> {
    writeln!(out, "rows {}", packed.len() / 12)?;
    for row in packed.chunks(12) {
        for byte in row {
            write!(out, "{byte:02x}")?;
        }
        out.push('\n')?;
    }
    Ok(())
}

/// Adds what a closed runtime hands back.
pub fn put_closed<N: Naming>(
    out: &mut String,
    table: &ItemTable<'_, Global>,
    closed: &Closed<N, Global>,
) -> Result<(), AllocError> {
    writeln!(out, "agree {}", closed.agree)?;
    put_made(out, table, closed.book.lanes(), &closed.counts)?;
    put_rows(out, closed.book.packed())
}
