//! Rows whose bytes were worked out by hand from "Histories" in docs/FORMAT.md.
//!
//! More rows, and bytes that hold none, are in tests/runtime/book. The test takes time linear in the number of rows.

ghost use Rattle.std.specs.Prelude.{◌≡◌};

use std::test::Fail;
use wq_core::HelpStep;
use wq_groups::LaneId;
use wq_history::{Event, Row, Rows, pack, unpack};
use wq_items::ItemId;
use wq_rows::History;

/// A wait on lane 1 for the whole lane of item 1, and an ask about lane 0.
const OF_LANES: &[u8; 24] = &[
    9, 1, 1, 0, 1, 0, 0, 0, 2, 0, 0, 0, // WaitAll on lane 1 for the lane of item 1, yes, 2
    11, 1, 0, 0, 0, 0, 0, 0, 1, 0, 0, 0, // AskLane of lane 0, yes, 1
];

/// The row of an ask about a lane, but with an item, which such a row doesn't have.
const NO_ROW: &[u8; 12] = &[11, 1, 1, 0, 0, 0, 0, 0, 1, 0, 0, 0];

/// A wait on lane 1 for item 1, and a row whose numbers have bytes that differ. The least significant byte comes first.
const PACKED: &[u8; 24] = &[
    4, 0, 1, 0, 1, 0, 0, 0, 1, 0, 0, 0, // Wait on lane 1 for item 1, no, 1
    8, 1, 2, 1, 0, 0, 0, 0, 4, 3, 2, 1, // Told of item 0x0102, yes, 0x01020304
];

/// The start of item 1 by helper 1 of lane 0; and the start by a helper that can't exist.
const HELPED: &[u8; 12] = &[3, 1, 1, 0, 0, 0, 1, 0, 1, 0, 0, 0];

const NO_HELPER: &[u8; 12] = &[3, 1, 1, 0, 0, 0, 9, 0, 1, 0, 0, 0];

fn row(event: Event, yes: bool, number: u32) -> Row
    ensures { result ≡ record { event = event; yes = yes; number = number } }
{
    Row { event, yes, number }
}

#[test]
fn rows_are_packed_and_read_again(rt: HostRuntime) -> Result<(), Fail> {
    let waited = row(Event::Wait(LaneId::new(1), ItemId::new(1)), false, 1);
    let told = row(Event::Told(ItemId::new(0x0102)), true, 0x0102_0304);
    let packed = PACKED.as_slice();
    assert!(rt; pack(&told).as_slice() == &packed[12..]);
    assert!(rt; unpack(&packed[12..]) == Some(told) && unpack(&packed[..13]).is_none());
    let mut history = History::new(rt.alloc(), 2)?;
    assert!(rt; history.len() == 0 && history.rows().next().is_none());
    history.push(&waited);
    history.push(&told);
    assert!(rt; history.len() == 2 && history.room() == 2);
    assert!(rt; history.packed() == packed);
    let mut rows = Rows::of(packed).expect(&rt, "two rows");
    assert!(rt; rows.len() == 2 && Rows::of(&packed[..23]).is_none());
    assert!(rt; rows.next() == Some(waited) && rows.next() == Some(told) && rows.next().is_none());
    assert!(rt; history.rows().next() == Some(waited));
    Ok(())
}

#[test]
fn rows_of_whole_lanes_are_packed_and_read_again(rt: HostRuntime) -> Result<(), Fail> {
    let waited = row(Event::WaitAll(LaneId::new(1), ItemId::new(1)), true, 2);
    let asked = row(Event::AskLane(LaneId::new(0)), true, 1);
    let packed = OF_LANES.as_slice();
    let mut history = History::new(rt.alloc(), 2)?;
    history.push(&waited);
    history.push(&asked);
    assert!(rt; history.packed() == packed);
    assert!(rt; unpack(&packed[..12]) == Some(waited) && unpack(&packed[12..]) == Some(asked));
    assert!(rt; unpack(NO_ROW.as_slice()).is_none());
    Ok(())
}

#[test]
fn rows_of_helpers_are_packed_and_read_again(rt: HostRuntime) -> Result<(), Fail> {
    let deed = HelpStep::Start(ItemId::new(1));
    let helped = row(Event::Help(LaneId::new(0), 1, deed), true, 1);
    assert!(rt; pack(&helped).as_slice() == HELPED.as_slice());
    assert!(rt; unpack(HELPED.as_slice()) == Some(helped));
    assert!(rt; unpack(NO_HELPER.as_slice()).is_none());
    Ok(())
}
