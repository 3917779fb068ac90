//! The calls of a text, made on one runtime in one thread, with its seats, except the calls that sleep until another
//! call wakes them.
//!
//! A session takes the time of the calls. A call that would wait for another thread never ends, unless it is one of the
//! sleeping calls.

use crate::sessions::asking::{RuntimeCall, read_call};
use crate::sessions::seats::Seats;
use crate::sessions::sleeping::{Sleeper, wake};
use crate::testbed::{MAX_CERTIFICATE, MAX_CERTIFICATE_LINE, mistake, put_closed};
use std::alloc::{AllocError, Global};
use std::sync::Wait;
use std::thread::Threads;
use std::time::Clock;
use std::{mem, str};
use wq_api::{CloseRefused, Closed, Naming, Seat, WqRuntime};
use wq_items::ItemTable;
use wq_text::{Text, Words};

/// A word, and a space after it.
fn put_word(out: &mut String, word: &[u8]) -> Result<(), AllocError> {
    out.push_str(str::from_utf8(word).unwrap_or("-"))?;
    out.push(' ')
}

/// The words of a line, each with a space after it.
fn put_words(out: &mut String, word: &[u8], words: Words<'_>) -> Result<(), AllocError> {
    put_word(out, word)?;
    for word in words {
        put_word(out, word.bytes())?;
    }
    Ok(())
}

/// A runtime that isn't closed yet, if there is one, and its seats.
#[derive(Drop)]
struct Session<'a, N: Naming, R: Wait> {
    rt: &'a R,
    alloc: Global,
    runtime: Option<WqRuntime<N, Global>>,
    seats: Seats<N>,
    /// The calls that are to sleep until the next call wakes them.
    sleepers: Vec<Sleeper<N>>,
}

impl<N: Naming, R: Wait> Session<'_, N, R> {
    /// Goes on with a runtime that isn't closed. The seats that were tried come before the others.
    fn reopen(
        &mut self,
        runtime: WqRuntime<N, Global>,
        mut seats: Vec<Seat<N, Global>>,
    ) -> Result<(), AllocError> {
        self.runtime = Some(runtime);
        let appended = seats.append(&mut self.seats.made);
        self.seats.made = seats;
        appended
    }

    /// Adds what a runtime hands back, and whether its book is closed.
    fn put_handed_back(
        table: &ItemTable<'_, Global>,
        closed: &Closed<N, Global>,
        out: &mut String,
    ) -> Result<(), AllocError> {
        out.push_str("ok\n")?;
        put_closed(out, table, closed)?;
        writeln!(out, "closed {}", closed.book.is_closed())
    }

    /// Closes this runtime with these seats, and adds what the runtime hands back.
    fn close_with(
        &mut self,
        runtime: WqRuntime<N, Global>,
        seats: Vec<Seat<N, Global>>,
        table: &ItemTable<'_, Global>,
        out: &mut String,
    ) -> Result<(), AllocError> {
        match runtime.close(seats) {
            Ok(closed) => {
                let printed = Self::put_handed_back(table, &closed, out);
                drop(closed);
                printed
            }
            Err(refused) => {
                let CloseRefused {
                    runtime,
                    seats,
                    why,
                    ..
                } = refused;
                self.reopen(runtime, seats)?;
                writeln!(out, "refused {}", why.code())
            }
        }
    }

    /// Closes the runtime with its first seats, and adds what is handed back.
    fn close(
        &mut self,
        table: &ItemTable<'_, Global>,
        count: u32,
        out: &mut String,
    ) -> Result<(), AllocError> {
        let count = self.seats.made.len().min(count as usize);
        let kept = self.seats.made.split_off(count)?;
        let tried = mem::replace(&mut self.seats.made, kept);
        match self.runtime.take() {
            Some(runtime) => self.close_with(runtime, tried, table, out),
            None => Ok(()),
        }
    }

    /// Makes a call, and adds the answer and the end of the line. It does nothing if the runtime is closed.
    fn make(
        &mut self,
        table: &ItemTable<'_, Global>,
        call: RuntimeCall,
        out: &mut String,
    ) -> Result<(), AllocError> {
        if let RuntimeCall::Close(count) = call {
            return self.close(table, count, out);
        }
        if let Some(runtime) = &self.runtime {
            self.seats
                .ask(self.rt, self.alloc, runtime, table, call, out)?;
        }
        out.push('\n')
    }
}

impl<N: Naming + Send + Sync, R: Threads + Wait + Clock + Sync> Session<'_, N, R> {
    /// Hears of a call that is to sleep, with a seat of its own. Returns false if the words have the form of no such
    /// call.
    fn hear_sleeper(
        &mut self,
        table: &ItemTable<'_, Global>,
        mut words: Words<'_>,
    ) -> Result<bool, AllocError> {
        let Some(word) = words.next() else {
            return Ok(false);
        };
        let call = match read_call(table, word.bytes(), words.again()) {
            None | Some(RuntimeCall::Close(_)) => return Ok(false),
            Some(call) => call,
        };
        let mut seats = Seats::new(self.alloc);
        if let Some(runtime) = &self.runtime {
            seats.add(self.rt, self.alloc, runtime, 1)?;
        }
        let mut said = String::new(self.alloc);
        said.push_str("asleep ")?;
        put_words(&mut said, word.bytes(), words)?;
        self.sleepers.push(Sleeper { seats, call, said })?;
        Ok(true)
    }

    /// Makes a call that wakes the sleeping ones, and adds the answers of all calls and the ends of their lines. Their
    /// seats come after the others.
    fn wake(
        &mut self,
        table: &ItemTable<'_, Global>,
        call: RuntimeCall,
        out: &mut String,
    ) -> Result<(), AllocError> {
        let sleepers = mem::replace(&mut self.sleepers, Vec::new(self.alloc));
        let Some(runtime) = &self.runtime else {
            return Ok(());
        };
        let woken = wake(
            self.rt,
            self.alloc,
            runtime,
            table,
            sleepers,
            &mut self.seats,
            call,
            out,
        )?;
        for sleeper in woken {
            out.push('\n')?;
            out.push_str(sleeper.said.as_str())?;
            self.seats.take(sleeper.seats)?;
        }
        out.push('\n')
    }

    /// Hears of a call, and makes it. Returns false if the words have the form of no call, or if the runtime can't be
    /// closed because calls sleep.
    fn hear_call(
        &mut self,
        table: &ItemTable<'_, Global>,
        word: &[u8],
        words: Words<'_>,
        out: &mut String,
    ) -> Result<bool, AllocError> {
        let Some(call) = read_call(table, word, words.again()) else {
            return Ok(false);
        };
        let is_waking = !self.sleepers.is_empty();
        if is_waking && matches!(call, RuntimeCall::Close(_)) {
            return Ok(false);
        }
        put_words(out, word, words)?;
        if is_waking {
            self.wake(table, call, out)?;
        } else {
            self.make(table, call, out)?;
        }
        Ok(true)
    }

    /// Hears of a line by its first word and the words after it. Returns false if the line is a mistake; once the
    /// runtime is closed, no line is.
    fn hear(
        &mut self,
        table: &ItemTable<'_, Global>,
        word: &[u8],
        words: Words<'_>,
        out: &mut String,
    ) -> Result<bool, AllocError> {
        if self.runtime.is_none() {
            return Ok(true);
        }
        match word {
            b"asleep" => self.hear_sleeper(table, words),
            _ => self.hear_call(table, word, words, out),
        }
    }
}

/// Makes the first seat of a runtime, and the calls of a text. Returns the status.
///
/// The lines are read here, and a session is no `Listener`: for a method of a trait the toolchain doesn't know that
/// what its type has may go to a thread.
fn call_all<N: Naming + Send + Sync, R: Threads + Wait + Clock + Sync>(
    session: &mut Session<'_, N, R>,
    table: &ItemTable<'_, Global>,
    text: &[u8],
    out: &mut String,
) -> Result<u8, AllocError> {
    if let Some(runtime) = &session.runtime {
        session.seats.add(session.rt, session.alloc, runtime, 1)?;
    }
    let text = match Text::new(text, MAX_CERTIFICATE, MAX_CERTIFICATE_LINE) {
        Ok(text) => text,
        Err(error) => return mistake(out, error.line()),
    };
    for line in text.lines() {
        let mut words = line.words();
        let Some(word) = words.next() else {
            continue;
        };
        if !session.hear(table, word.bytes(), words, out)? {
            return mistake(out, line.no());
        }
    }
    Ok(0)
}

/// Makes the calls of a text of a runtime, and adds their answers. Returns the status.
pub(crate) fn keep_session<N: Naming + Send + Sync, R: Threads + Wait + Clock + Sync>(
    rt: &R,
    alloc: Global,
    runtime: WqRuntime<N, Global>,
    table: &ItemTable<'_, Global>,
    text: &[u8],
    out: &mut String,
) -> Result<u8, AllocError> {
    let mut session = Session {
        rt,
        alloc,
        runtime: Some(runtime),
        seats: Seats::new(alloc),
        sleepers: Vec::new(alloc),
    };
    let status = call_all(&mut session, table, text, out);
    drop(session);
    status
}
