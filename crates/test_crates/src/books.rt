//! Books: an ask of another book, and what a book says of its rows and its lanes.
//!
//! What each call answers in which state, and the judgement of a history, are tested in tests/runtime/book. The rules
//! are those of "Books" in docs/RUNTIME.md, from which each row was worked out by hand. The tests take time linear in
//! the number of calls.

use crate::declared::{core_in, helped_core_in};
use linked_list_allocator::LocalHeap;
use std::alloc::{Allocator, Global};
use std::process::Abort;
use std::test::Fail;
use wq_groups::LaneId;
use wq_history::{Ask, Asked, Book, BookError, LaneAsk, LaneAsked, LaneTold, Told, unpack};
use wq_items::ItemId;

/// An item that flushes another, the first on lane 1 and the second on lane 0.
pub(crate) const PAIR: &str = "item a\nitem b\nflush a b\n";

pub(crate) const PAIR_LANES: &[u16] = &[1, 0];

/// The rows that `make_each_call` writes, packed.
pub(crate) const HISTORY: &[u8; 108] = &[
    2, 0, 1, 0, 0, 0, 0, 0, 0, 0, 0, 0, // Cancel b, no, 0
    1, 1, 0, 0, 0, 0, 0, 0, 0, 0, 0, 0, // Queue a, yes, 0
    1, 0, 0, 0, 0, 0, 0, 0, 0, 0, 0, 0, // Queue a, no, 0
    7, 1, 0, 0, 0, 0, 0, 0, 1, 0, 0, 0, // Ask a, yes, 1
    3, 1, 0, 0, 1, 0, 0, 0, 0, 0, 0, 0, // Start on lane 1 a, yes, 0
    4, 0, 1, 0, 1, 0, 0, 0, 1, 0, 0, 0, // Wait on lane 1 for b, no, 1
    5, 1, 1, 0, 1, 0, 0, 0, 1, 0, 0, 0, // Over on lane 1 for b, yes, 1
    6, 1, 0, 0, 1, 0, 0, 0, 0, 0, 0, 0, // Finish on lane 1 a, yes, 0
    8, 1, 0, 0, 0, 0, 0, 0, 1, 0, 0, 0, // Told a, yes, 1
];

/// The ask that is waiting.
fn waits(rt: &impl Abort, answer: Result<Ask, BookError>) -> Asked {
    match answer {
        Ok(Ask::Waiting(asked)) => asked,
        Ok(Ask::Idle) | Err(_) => panic!(rt; "no ask waits"),
    }
}

/// Makes each call of a book of the pair with 9 rows, and asserts what was written.
pub(crate) fn make_each_call<A: Allocator>(rt: &impl Abort, book: &mut Book<A>) {
    let (a, b, q) = (ItemId::new(0), ItemId::new(1), LaneId::new(1));
    assert!(rt; book.cancel(b) == Ok(false));
    assert!(rt; book.queue(a) == Ok(true) && book.queue(a) == Ok(false));
    let asked = waits(rt, book.ask(a));
    assert!(rt; book.start(q) == Ok(Some(a)));
    assert!(rt; book.wait(q, b) == Ok(false) && book.over(q) == Ok(true));
    assert!(rt; book.finish(q).is_ok());
    match book.told(asked) {
        Told::Done => {}
        Told::NotYet(asked) | Told::NotAsked(asked) => asked.give_up(),
    }
    book.close();
    assert!(rt; book.packed() == HISTORY.as_slice());
}

/// An item that waits for the whole lane of another. The first is on lane 1, the second and a third on lane 0.
const WHOLE: &str = "item a\nitem b\nitem c\nflushwq a b\n";

const WHOLE_LANES: &[u16] = &[1, 0, 0];

/// The rows that `wait_for_a_lane` writes, packed.
const WAITED: &[u8; 96] = &[
    1, 1, 2, 0, 0, 0, 0, 0, 0, 0, 0, 0, // Queue c, yes, 0
    1, 1, 0, 0, 0, 0, 0, 0, 1, 0, 0, 0, // Queue a, yes, 1
    3, 1, 0, 0, 1, 0, 0, 0, 1, 0, 0, 0, // Start on lane 1 a, yes, 1
    9, 1, 1, 0, 1, 0, 0, 0, 2, 0, 0, 0, // WaitAll on lane 1 for the lane of b, yes, 2
    3, 1, 2, 0, 0, 0, 0, 0, 0, 0, 0, 0, // Start on lane 0 c, yes, 0
    6, 1, 2, 0, 0, 0, 0, 0, 0, 0, 0, 0, // Finish on lane 0 c, yes, 0
    10, 1, 1, 0, 1, 0, 0, 0, 2, 0, 0, 0, // OverAll on lane 1 for the lane of b, yes, 2
    6, 1, 0, 0, 1, 0, 0, 0, 1, 0, 0, 0, // Finish on lane 1 a, yes, 1
];

/// The rows that `ask_about_a_lane` writes, packed.
const ASKED: &[u8; 72] = &[
    11, 0, 0, 0, 0, 0, 0, 0, 0, 0, 0, 0, // AskLane of lane 0, no, 0
    1, 1, 2, 0, 0, 0, 0, 0, 0, 0, 0, 0, // Queue c, yes, 0
    11, 1, 0, 0, 0, 0, 0, 0, 1, 0, 0, 0, // AskLane of lane 0, yes, 1
    3, 1, 2, 0, 0, 0, 0, 0, 0, 0, 0, 0, // Start on lane 0 c, yes, 0
    6, 1, 2, 0, 0, 0, 0, 0, 0, 0, 0, 0, // Finish on lane 0 c, yes, 0
    12, 1, 0, 0, 0, 0, 0, 0, 1, 0, 0, 0, // ToldLane of lane 0, yes, 1
];

/// Makes an execution wait for the whole lane of b, on which only c is pending, in a book with 8 rows.
fn wait_for_a_lane(rt: &impl Abort, book: &mut Book<Global>) {
    let (a, b, c) = (ItemId::new(0), ItemId::new(1), ItemId::new(2));
    let (low, high) = (LaneId::new(0), LaneId::new(1));
    assert!(rt; book.queue(c) == Ok(true) && book.queue(a) == Ok(true) && book.free_rows() == 0);
    assert!(rt; book.start(high) == Ok(Some(a)));
    assert!(rt; book.wait(high, b) == Err(BookError::Undeclared));
    assert!(rt; book.wait_all(high, b) == Ok(true));
    assert!(rt; book.waiting(high).is_none() && book.waiting_all(high) == Some(b));
    assert!(rt; book.over(high) == Ok(false));
    assert!(rt; book.start(low) == Ok(Some(c)) && book.finish(low).is_ok());
    assert!(rt; book.over(high) == Ok(true) && book.waiting_all(high).is_none());
    assert!(rt; book.finish(high).is_ok());
    assert!(rt; book.packed() == WAITED.as_slice());
}

/// The ask about a lane that is waiting.
fn lane_waits(rt: &impl Abort, answer: Result<LaneAsk, BookError>) -> LaneAsked {
    match answer {
        Ok(LaneAsk::Waiting(asked)) => asked,
        Ok(LaneAsk::Idle) | Err(_) => panic!(rt; "no ask waits"),
    }
}

/// Whether no entry of a lane is unfinished; or why the ask is refused.
fn lane_is_idle(answer: Result<LaneAsk, BookError>) -> Result<bool, BookError> {
    match answer {
        Ok(LaneAsk::Idle) => Ok(true),
        Ok(LaneAsk::Waiting(asked)) => {
            asked.give_up();
            Ok(false)
        }
        Err(why) => Err(why),
    }
}

/// The ask that goes on, since its lane isn't done.
fn not_yet(rt: &impl Abort, told: LaneTold) -> LaneAsked {
    match told {
        LaneTold::NotYet(asked) => asked,
        LaneTold::NotAsked(asked) => {
            asked.give_up();
            panic!(rt; "no ask waits")
        }
        LaneTold::Done => panic!(rt; "the wait is over"),
    }
}

/// Whether the wait is over.
fn is_done(told: LaneTold) -> bool {
    match told {
        LaneTold::Done => true,
        LaneTold::NotYet(asked) | LaneTold::NotAsked(asked) => {
            asked.give_up();
            false
        }
    }
}

/// Makes a caller wait for lane 0, on which only c is pending, in a book with 6 rows.
fn ask_about_a_lane(rt: &impl Abort, book: &mut Book<Global>) {
    let (c, q) = (ItemId::new(2), LaneId::new(0));
    assert!(rt; lane_is_idle(book.ask_lane(LaneId::new(2))) == Err(BookError::WrongLane));
    assert!(rt; lane_is_idle(book.ask_lane(q)) == Ok(true));
    assert!(rt; book.queue(c) == Ok(true));
    let asked = lane_waits(rt, book.ask_lane(q));
    let mark = asked.mark();
    let free = book.free_rows();
    let asked = not_yet(rt, book.told_lane(asked));
    let started = book.start(q);
    let finished = book.finish(q);
    let done = is_done(book.told_lane(asked));
    assert!(rt; mark == 1 && free == 0);
    assert!(rt; started == Ok(Some(c)) && finished.is_ok() && done);
    assert!(rt; book.packed() == ASKED.as_slice());
}

/// A book of the item that waits for a whole lane, with room for this many rows.
fn whole_book(alloc: Global, rows: u32) -> Result<Book<Global>, Fail> {
    let core = core_in(alloc, alloc, WHOLE, 2, WHOLE_LANES)??;
    Ok(Book::new(alloc, core, rows)?)
}

#[test]
fn an_execution_waits_for_a_whole_lane(rt: HostRuntime) -> Result<(), Fail> {
    let mut book = whole_book(rt.alloc(), 8)?;
    wait_for_a_lane(&rt, &mut book);
    Ok(())
}

#[test]
fn a_caller_waits_for_a_whole_lane(rt: HostRuntime) -> Result<(), Fail> {
    let mut book = whole_book(rt.alloc(), 6)?;
    ask_about_a_lane(&rt, &mut book);
    Ok(())
}

/// Two items on one lane, which may run at the same time.
const FREE: &str = "item a\nitem b\n";

/// The same two items, which may not run at the same time.
const ORDERED: &str = "item a\nitem b\nordered a b\n";

/// The rows that `share_a_lane` writes, packed.
const SHARED: &[u8; 96] = &[
    1, 1, 0, 0, 0, 0, 0, 0, 0, 0, 0, 0, // Queue a, yes, 0
    1, 1, 1, 0, 0, 0, 0, 0, 1, 0, 0, 0, // Queue b, yes, 1
    3, 1, 0, 0, 0, 0, 1, 0, 0, 0, 0, 0, // Start by helper 1 of lane 0 a, yes, 0
    1, 1, 0, 0, 0, 0, 0, 0, 2, 0, 0, 0, // Queue a, yes, 2
    3, 1, 1, 0, 0, 0, 0, 0, 1, 0, 0, 0, // Start on lane 0 b, yes, 1
    6, 1, 1, 0, 0, 0, 0, 0, 1, 0, 0, 0, // Finish on lane 0 b, yes, 1
    6, 1, 0, 0, 0, 0, 1, 0, 0, 0, 0, 0, // Finish by helper 1 of lane 0 a, yes, 0
    3, 1, 0, 0, 0, 0, 0, 0, 2, 0, 0, 0, // Start on lane 0 a, yes, 2
];

/// Has a helper run a while the rescuer of the lane runs b, and a is queued again, in a book with 9 rows.
fn share_a_lane(rt: &impl Abort, book: &mut Book<Global>) {
    let (a, b, q) = (ItemId::new(0), ItemId::new(1), LaneId::new(0));
    assert!(rt; book.queue(a) == Ok(true) && book.queue(b) == Ok(true));
    assert!(rt; book.help_start(q, 0) == Err(BookError::WrongLane));
    assert!(rt; book.help_start(q, 2) == Err(BookError::WrongLane));
    assert!(rt; book.help_start(q, 1) == Ok(Some(a)));
    assert!(rt; book.queue(a) == Ok(true) && book.running(q).is_none());
    assert!(rt; book.start(q) == Ok(Some(b)) && book.help_running(q, 1) == Some(a));
    assert!(rt; book.finish(q).is_ok());
    // What is pending can't be started, since the helper runs its item.
    assert!(rt; book.is_pending_on(q) && book.start(q) == Ok(None));
    assert!(rt; book.help_wait(q, 1, b) == Err(BookError::Undeclared));
    assert!(rt; book.help_over(q, 1) == Err(BookError::WrongLane));
    assert!(rt; book.help_finish(q, 1).is_ok() && book.help_running(q, 1).is_none());
    assert!(rt; book.start(q) == Ok(Some(a)) && !book.is_pending_on(q));
    assert!(rt; book.packed() == SHARED.as_slice());
}

/// The book of a declaration and of the lane of each group, with a helper for an
/// unordered lane, and with room for 9 rows.
fn helped_book(alloc: Global, text: &str, lane_of_group: &[u16]) -> Result<Book<Global>, Fail> {
    let core = helped_core_in(alloc, alloc, text, 1, lane_of_group, 1)??;
    Ok(Book::new(alloc, core, 9)?)
}

#[test]
fn a_helper_runs_an_item_beside_the_rescuer(rt: HostRuntime) -> Result<(), Fail> {
    let mut book = helped_book(rt.alloc(), FREE, &[0, 0])?;
    share_a_lane(&rt, &mut book);
    Ok(())
}

/// Asserts that lane 0 has no helper.
fn assert_unhelped(rt: &impl Abort, book: &mut Book<Global>) {
    let q = LaneId::new(0);
    assert!(rt; book.help_start(q, 1) == Err(BookError::WrongLane));
    assert!(rt; book.helpers_of(q) == 0 && book.packed().is_empty());
}

#[test]
fn an_ordered_lane_has_no_helper(rt: HostRuntime) -> Result<(), Fail> {
    let mut book = helped_book(rt.alloc(), ORDERED, &[0])?;
    assert_unhelped(&rt, &mut book);
    Ok(())
}

/// The book of a declaration and of the lane of each group, with room for 9 rows.
fn book_of(alloc: Global, text: &str, lane_of_group: &[u16]) -> Result<Book<Global>, Fail> {
    let lanes = u16::try_from(lane_of_group.len())?;
    let core = core_in(alloc, alloc, text, lanes, lane_of_group)??;
    Ok(Book::new(alloc, core, 9)?)
}

/// Asserts what a book of the pair says of its items, its lanes and its rows, before and after each call was made.
fn assert_stands(rt: &impl Abort, book: &mut Book<Global>) {
    let (a, b) = (ItemId::new(0), ItemId::new(1));
    assert!(rt; book.items() == 2 && book.lanes() == 2);
    assert!(rt; book.lane_of(a) == Some(LaneId::new(1)) && book.lane_of(b) == Some(LaneId::new(0)));
    assert!(rt; book.lane_of(ItemId::new(2)).is_none());
    make_each_call(rt, book);
    assert!(rt; book.is_idle() && book.is_closed() && book.free_rows() == 0);
    assert!(rt; book.rows().len() == 9);
    for (row, bytes) in book.rows().zip(HISTORY.chunks(12)) {
        assert!(rt; Some(row) == unpack(bytes));
    }
}

#[test]
fn a_book_says_how_it_stands(rt: HostRuntime) -> Result<(), Fail> {
    let mut book = book_of(rt.alloc(), PAIR, PAIR_LANES)?;
    assert_stands(&rt, &mut book);
    Ok(())
}

/// The ask that is given back, since none about its item waits in this book.
fn not_asked(rt: &impl Abort, told: Told) -> Asked {
    match told {
        Told::NotAsked(asked) => asked,
        Told::NotYet(asked) => {
            asked.give_up();
            panic!(rt; "an ask waits")
        }
        Told::Done => panic!(rt; "the wait is over"),
    }
}

/// Asserts that an ask of a book of one item is given back by another one, and that it took no row of it.
fn assert_given_back(rt: &impl Abort, book: &mut Book<Global>, other: &mut Book<Global>) {
    let a = ItemId::new(0);
    assert!(rt; book.queue(a) == Ok(true) && other.queue(a) == Ok(true));
    let asked = not_asked(rt, other.told(waits(rt, book.ask(a))));
    assert!(rt; asked.item() == a && asked.mark() == 1);
    asked.give_up();
    // The ask's own book keeps a row for it.
    assert!(rt; book.free_rows() == 4 && other.free_rows() == 6);
    assert!(rt; book.rows().len() == 2 && other.rows().len() == 1);
}

/// Asserts this of another book of one item.
fn assert_given_back_by_another(
    rt: &impl Abort,
    alloc: Global,
    book: &mut Book<Global>,
) -> Result<(), Fail> {
    let mut other = book_of(alloc, "item a\n", &[0])?;
    assert_given_back(rt, book, &mut other);
    Ok(())
}

#[test]
fn an_ask_of_another_book_is_given_back(rt: HostRuntime) -> Result<(), Fail> {
    let mut book = book_of(rt.alloc(), "item a\n", &[0])?;
    assert_given_back_by_another(&rt, rt.alloc(), &mut book)
}

/// How many bytes of a heap a book with room for this many rows takes, besides its machine.
fn bytes_of(heap: &LocalHeap, rows: u32) -> Result<Option<usize>, Fail> {
    let core = core_in(heap, heap, "item a\n", 1, &[0])??;
    let before = heap.used();
    let Ok(_book) = Book::new(heap, core, rows) else {
        return Ok(None);
    };
    Ok(heap.used().checked_sub(before))
}

#[test]
fn a_row_takes_12_bytes(rt: HostRuntime) -> Result<(), Fail> {
    let heap = LocalHeap::new(rt.alloc(), 65536)?;
    let few = bytes_of(&heap, 1_000)?;
    let more = bytes_of(&heap, 2_000)?;
    assert_eq!(rt; more, few.and_then(|bytes| bytes.checked_add(12_000)));
    assert!(rt; few.is_some());
    Ok(())
}
