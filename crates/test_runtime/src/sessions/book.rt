//! The calls of a book that a text asks for, made line by line. This takes the time of the calls, and for each line
//! that of printing each lane.

use crate::sessions::asks::{ask, give_up_all, tell};
use crate::sessions::lane_asks;
use crate::sessions::lines::{Listener, tell_text};
use crate::testbed::{
    Bed, helper_of, item_of, lane_of, mistake, put_code, put_item, put_item_or_none, put_rows,
    put_waiting,
};
use std::alloc::{AllocError, Global};
use wq_core::{Core, MAX_HELPERS};
use wq_groups::{Declaration, LaneId};
use wq_history::{Asked, Book, BookError, LaneAsked};
use wq_items::{ItemId, ItemTable};
use wq_text::{Words, number};

/// What a line asks for.
#[derive(Clone, Copy)]
enum BookCall {
    Queue(ItemId),
    Cancel(ItemId),
    Ask(ItemId),
    /// Hands in the ask about an item with this number.
    Tell(u32),
    AskLane(LaneId),
    /// Hands in the ask about a lane with this number.
    TellLane(u32),
    Start(LaneId),
    Wait(LaneId, ItemId),
    WaitAll(LaneId, ItemId),
    Over(LaneId),
    Finish(LaneId),
    HelpStart(LaneId, u8),
    HelpWait(LaneId, u8, ItemId),
    HelpWaitAll(LaneId, u8, ItemId),
    HelpOver(LaneId, u8),
    HelpFinish(LaneId, u8),
    Close,
}

/// The call that this word asks for, with one word after it.
fn call_of(table: &ItemTable<'_, Global>, word: &[u8], what: &[u8]) -> Option<BookCall> {
    let call = match word {
        b"queue" => BookCall::Queue(item_of(table, what)),
        b"cancel" => BookCall::Cancel(item_of(table, what)),
        b"ask" => BookCall::Ask(item_of(table, what)),
        b"told" => BookCall::Tell(number(what)?),
        b"asklane" => BookCall::AskLane(lane_of(what)?),
        b"toldlane" => BookCall::TellLane(number(what)?),
        b"start" => BookCall::Start(lane_of(what)?),
        b"over" => BookCall::Over(lane_of(what)?),
        b"finish" => BookCall::Finish(lane_of(what)?),
        _ => return None,
    };
    Some(call)
}

/// The wait that this word asks for, of what runs on a lane, for an item.
fn wait_on(word: &[u8], q: LaneId, item: ItemId) -> Option<BookCall> {
    match word {
        b"wait" => Some(BookCall::Wait(q, item)),
        b"waitall" => Some(BookCall::WaitAll(q, item)),
        _ => None,
    }
}

/// The call of a helper that this word asks for.
fn help_alone(word: &[u8], q: LaneId, h: u8) -> Option<BookCall> {
    match word {
        b"start" => Some(BookCall::HelpStart(q, h)),
        b"over" => Some(BookCall::HelpOver(q, h)),
        b"finish" => Some(BookCall::HelpFinish(q, h)),
        _ => None,
    }
}

/// The wait that this word asks for, of what a helper of a lane runs, for an item.
fn help_wait(word: &[u8], q: LaneId, h: u8, item: ItemId) -> Option<BookCall> {
    match word {
        b"wait" => Some(BookCall::HelpWait(q, h, item)),
        b"waitall" => Some(BookCall::HelpWaitAll(q, h, item)),
        _ => None,
    }
}

/// The call of a helper that the words after `help` ask for; none if they have the form of no call.
fn read_help(table: &ItemTable<'_, Global>, mut words: Words<'_>) -> Option<BookCall> {
    let word = words.next()?;
    let q = lane_of(words.next()?.bytes())?;
    let h = helper_of(words.next()?.bytes())?;
    match (words.next(), words.next()) {
        (None, _) => help_alone(word.bytes(), q, h),
        (Some(name), None) => help_wait(word.bytes(), q, h, item_of(table, name.bytes())),
        _ => None,
    }
}

/// The call that a line asks for by its first word and the words after it; none if it has the form of no call.
fn read_call(table: &ItemTable<'_, Global>, word: &[u8], mut words: Words<'_>) -> Option<BookCall> {
    if word == b"help".as_slice() {
        return read_help(table, words);
    }
    match (words.next(), words.next(), words.next()) {
        (None, _, _) if word == b"close".as_slice() => Some(BookCall::Close),
        (Some(what), None, _) => call_of(table, word, what.bytes()),
        (Some(q), Some(name), None) => {
            wait_on(word, lane_of(q.bytes())?, item_of(table, name.bytes()))
        }
        _ => None,
    }
}

/// Adds the answer of `queue`, `cancel`, a wait or `over`.
fn put_said(out: &mut String, said: Result<bool, BookError>) -> Result<(), AllocError> {
    match said {
        Ok(said) => write!(out, "{said}"),
        Err(error) => put_code(out, error.code()),
    }
}

/// Adds the answer of `finish`.
fn put_finished(out: &mut String, finished: Result<(), BookError>) -> Result<(), AllocError> {
    match finished {
        Ok(()) => out.push_str("ok"),
        Err(error) => put_code(out, error.code()),
    }
}

/// Adds the answer of `start`.
fn put_started(
    out: &mut String,
    table: &ItemTable<'_, Global>,
    started: Result<Option<ItemId>, BookError>,
) -> Result<(), AllocError> {
    match started {
        Ok(Some(item)) => put_item(out, table, item),
        Ok(None) => out.push_str("none"),
        Err(error) => put_code(out, error.code()),
    }
}

/// Adds what the rescuer of a lane runs and waits for, and then what each helper does.
fn put_lane(
    out: &mut String,
    table: &ItemTable<'_, Global>,
    book: &Book<Global>,
    helpers: u8,
    q: LaneId,
) -> Result<(), AllocError> {
    out.push(' ')?;
    put_item_or_none(out, table, book.running(q))?;
    out.push(' ')?;
    put_waiting(out, table, book.waiting(q), book.waiting_all(q))?;
    for h in 0..helpers {
        let h = h + 1;
        out.push(' ')?;
        put_item_or_none(out, table, book.help_running(q, h))?;
        out.push(' ')?;
        put_waiting(
            out,
            table,
            book.help_waiting(q, h),
            book.help_waiting_all(q, h),
        )?;
    }
    Ok(())
}

/// Adds the state of a book with this many helpers, after an answer, and the end of the line.
fn put_state(
    out: &mut String,
    table: &ItemTable<'_, Global>,
    book: &Book<Global>,
    helpers: u8,
) -> Result<(), AllocError> {
    let entries = if book.is_idle() { "idle" } else { "busy" };
    let door = if book.is_closed() { "closed" } else { "open" };
    write!(out, " free {} {entries} {door}", book.free_rows())?;
    for q in 0..u16::try_from(book.lanes()).unwrap_or(u16::MAX) {
        put_lane(out, table, book, helpers, LaneId::new(q))?;
    }
    out.push('\n')
}

/// A book, how many helpers each lane has that isn't ordered, and the asks that were handed out.
struct Desk {
    book: Book<Global>,
    helpers: u8,
    asks: Vec<Option<Asked>>,
    lane_asks: Vec<Option<LaneAsked>>,
}

impl Desk {
    /// Makes a call, and adds the answer. Returns false if the call hands in an ask that isn't there.
    fn make(
        &mut self,
        table: &ItemTable<'_, Global>,
        call: BookCall,
        out: &mut String,
    ) -> Result<bool, AllocError> {
        let book = &mut self.book;
        let put = match call {
            BookCall::Queue(item) => put_said(out, book.queue(item)),
            BookCall::Cancel(item) => put_said(out, book.cancel(item)),
            BookCall::Ask(item) => ask(book, &mut self.asks, item, out),
            BookCall::Tell(number) => return tell(book, &mut self.asks, number, out),
            BookCall::AskLane(q) => lane_asks::ask(book, &mut self.lane_asks, q, out),
            BookCall::TellLane(number) => {
                return lane_asks::tell(book, &mut self.lane_asks, number, out);
            }
            BookCall::Start(q) => put_started(out, table, book.start(q)),
            BookCall::Wait(q, item) => put_said(out, book.wait(q, item)),
            BookCall::WaitAll(q, item) => put_said(out, book.wait_all(q, item)),
            BookCall::Over(q) => put_said(out, book.over(q)),
            BookCall::Finish(q) => put_finished(out, book.finish(q)),
            BookCall::HelpStart(q, h) => put_started(out, table, book.help_start(q, h)),
            BookCall::HelpWait(q, h, item) => put_said(out, book.help_wait(q, h, item)),
            BookCall::HelpWaitAll(q, h, item) => put_said(out, book.help_wait_all(q, h, item)),
            BookCall::HelpOver(q, h) => put_said(out, book.help_over(q, h)),
            BookCall::HelpFinish(q, h) => put_finished(out, book.help_finish(q, h)),
            BookCall::Close => {
                book.close();
                out.push_str("ok")
            }
        };
        put.and(Ok(true))
    }

    /// Gives up the asks that are left, and hands the book back.
    fn end(self) -> Book<Global> {
        let Desk {
            book,
            asks,
            lane_asks,
            helpers: _,
        } = self;
        give_up_all(asks);
        lane_asks::give_up_all(lane_asks);
        book
    }
}

impl Listener for Desk {
    fn hear(
        &mut self,
        table: &ItemTable<'_, Global>,
        word: &[u8],
        words: Words<'_>,
        out: &mut String,
    ) -> Result<bool, AllocError> {
        let Some(call) = read_call(table, word, words) else {
            return Ok(false);
        };
        let is_made = self.make(table, call, out)?;
        if is_made {
            put_state(out, table, &self.book, self.helpers)?;
        }
        Ok(is_made)
    }
}

/// Adds the rows of a book once a text was told. Returns the status.
fn put_end(
    out: &mut String,
    book: &Book<Global>,
    told: Result<Option<u32>, AllocError>,
) -> Result<u8, AllocError> {
    match told? {
        None => {
            put_rows(out, book.packed())?;
            Ok(0)
        }
        Some(line) => mistake(out, line),
    }
}

/// Makes the calls of a text on a book, and adds their answers and the rows. Returns the status.
fn call_book(
    alloc: Global,
    table: &ItemTable<'_, Global>,
    book: Book<Global>,
    helpers: u8,
    text: &[u8],
    out: &mut String,
) -> Result<u8, AllocError> {
    let mut desk = Desk {
        book,
        helpers,
        asks: Vec::new(alloc),
        lane_asks: Vec::new(alloc),
    };
    let told = tell_text(&mut desk, table, text, out);
    let book = desk.end();
    let status = put_end(out, &book, told);
    drop(book);
    status
}

/// Makes a book, and the calls of a text. Returns the status.
pub(crate) fn keep_book(
    alloc: Global,
    bed: &Bed<'_>,
    text: &[u8],
    out: &mut String,
) -> Result<u8, AllocError> {
    let helpers = bed.helpers.min(MAX_HELPERS);
    let declared = bed.declared;
    let Declaration { table, groups } = declared;
    let core = Core::with_helpers(alloc, table, groups, bed.assignment, helpers)?;
    match Book::new(alloc, core, bed.rows) {
        Ok(book) => call_book(alloc, table, book, helpers, text, out),
        Err(BookError::OutOfMemory) => Err(AllocError),
        Err(error) => {
            writeln!(out, "refused {}", error.code())?;
            Ok(2)
        }
    }
}
