//! Commands over devices that move a byte a call, or a few, and with each call of a device failing in turn. This takes
//! as long as all the runs together.

use crate::asked::Wanted;
use crate::devices::{
    CHUNK, Counts, DeviceRun, Devices, Pieces, UNASKED, WHOLE, failing_writer, run_over,
};
use std::alloc::Global;
use std::io::{self, ErrorKind};
use std::sync::Wait;
use std::thread::Threads;
use test_cases::{Failure, Fake, Readers};
use wq_commands::{Fault, Metered};
use wq_run::CommandFault;

/// How a read fails. One that is interrupted isn't tried again.
const READ_FAILURES: [Failure; 2] = [
    Failure::Error(ErrorKind::Interrupted),
    Failure::Error(ErrorKind::Other),
];

/// How a write fails.
const WRITE_FAILURES: [Failure; 3] = [
    Failure::Error(ErrorKind::Interrupted),
    Failure::Error(ErrorKind::Other),
    Failure::Nothing,
];

/// One byte a call.
const ONE: Pieces = Pieces {
    reads: 1,
    writes: 1,
    tells: 1,
};

/// How many runs ended as they should, and how many did not.
#[derive(Clone, Copy)]
struct DeviceTally {
    right: u64,
    wrong: u64,
}

/// No run.
const NONE: DeviceTally = DeviceTally { right: 0, wrong: 0 };

impl DeviceTally {
    /// Counts a run.
    fn note(&mut self, is_right: bool) {
        let count = if is_right {
            &mut self.right
        } else {
            &mut self.wrong
        };
        *count = count.saturating_add(1);
    }
}

/// What is counted of a device that moves these bytes, one a call.
fn each(bytes: &[u8]) -> Counts {
    let len = bytes.len() as u64;
    (len, len, 0)
}

/// What is counted of a reader of this text, of which each call asks for more than there is: one call finds the end.
fn at_once(text: &[u8]) -> Counts {
    let calls = if text.is_empty() { 1 } else { 2 };
    (calls, text.len() as u64, 0)
}

/// What is counted of a device that failed after this many calls, each of which moved a byte.
fn failed(successes: u32) -> Counts {
    let before = u64::from(successes);
    (before.saturating_add(1), before, 1)
}

/// What is counted of the reader of a text that is read to its end, one byte a call.
/// A command asks only for texts that it has.
fn read_one_by_one(asked: &Wanted<'_, '_>, at: usize) -> Counts {
    if at >= asked.order.texts() {
        return UNASKED;
    }
    let (calls, bytes, _) = each(asked.text(at));
    (calls.saturating_add(1), bytes, 0)
}

/// Whether a command over devices of one byte a call is answered, and asks for each byte once.
fn is_one_by_one(ran: &DeviceRun, asked: &Wanted<'_, '_>) -> bool {
    let [first, second, third] = ran.reads;
    ran.is_whole(asked)
        && first == read_one_by_one(asked, 0)
        && second == read_one_by_one(asked, 1)
        && third == read_one_by_one(asked, 2)
        && ran.writes == each(asked.answer)
        && ran.tells == each(asked.said)
}

/// What is counted of the reader of a text, if the one of the text at `at`
/// failed: it isn't asked, if it comes later.
fn read_before(asked: &Wanted<'_, '_>, text: usize, at: usize, successes: u32) -> Counts {
    if text < at {
        at_once(asked.text(text))
    } else if text == at {
        failed(successes)
    } else {
        UNASKED
    }
}

/// Whether a read of the text at `at` was the end of a command, after this many reads that gave a byte each.
fn is_unread(ran: &DeviceRun, asked: &Wanted<'_, '_>, at: usize, successes: u32) -> bool {
    let [first, second, third] = ran.reads;
    ran.end == Err(CommandFault::Common(Fault::Read))
        && ran.is_untouched()
        && first == read_before(asked, 0, at, successes)
        && second == read_before(asked, 1, at, successes)
        && third == read_before(asked, 2, at, successes)
}

/// Whether a write was the end of a command, after this many writes that took a byte each.
fn is_unwritten(ran: &DeviceRun, asked: &Wanted<'_, '_>, successes: u32) -> bool {
    ran.end == Err(CommandFault::Common(Fault::Write))
        && ran.is_silent()
        && ran.writes == failed(successes)
        && asked.answer.get(..successes as usize) == Some(ran.written.as_slice())
}

/// Whether a command is answered, and only the first bytes are said, a call for each.
fn is_cut_short(ran: &DeviceRun, asked: &Wanted<'_, '_>, successes: u32) -> bool {
    ran.is_answered(asked)
        && ran.tells == failed(successes)
        && asked.said.get(..successes as usize) == Some(ran.said.as_slice())
}

/// Has a read of the text at `at` fail.
fn fail_read<R: Threads + Wait + Sync>(
    rt: &R,
    alloc: Global,
    asked: &Wanted<'_, '_>,
    at: usize,
    successes: u32,
    failure: Failure,
) -> bool {
    let Devices {
        readers,
        writer,
        teller,
    } = Devices::new(alloc, asked.texts, WHOLE);
    let Readers {
        first,
        second,
        third,
    } = readers;
    let failing = Metered::new(Fake::failing_after(asked.text(at), successes, failure));
    let (first, second, third) = match at {
        0 => (failing, second, third),
        1 => (first, failing, third),
        _ => (first, second, failing),
    };
    let readers = Readers {
        first,
        second,
        third,
    };
    let devices = Devices {
        readers,
        writer,
        teller,
    };
    let ran = run_over(rt, alloc, asked.order, devices);
    is_unread(&ran, asked, at, successes)
}

/// Has a write of the answer fail.
fn fail_write<R: Threads + Wait + Sync>(
    rt: &R,
    alloc: Global,
    asked: &Wanted<'_, '_>,
    successes: u32,
    failure: Failure,
) -> bool {
    let mut devices = Devices::new(alloc, asked.texts, WHOLE);
    devices.writer = failing_writer(alloc, successes, failure);
    let ran = run_over(rt, alloc, asked.order, devices);
    is_unwritten(&ran, asked, successes)
}

/// Has a write of what is said fail.
fn fail_tell<R: Threads + Wait + Sync>(
    rt: &R,
    alloc: Global,
    asked: &Wanted<'_, '_>,
    successes: u32,
    failure: Failure,
) -> bool {
    let mut devices = Devices::new(alloc, asked.texts, WHOLE);
    devices.teller = failing_writer(alloc, successes, failure);
    let ran = run_over(rt, alloc, asked.order, devices);
    is_cut_short(&ran, asked, successes)
}

/// How many bytes these are. No text of the tests has more than a `u32` can count.
fn count(bytes: &[u8]) -> u32 {
    u32::try_from(bytes.len()).unwrap_or(u32::MAX)
}

/// Has each read of each text fail in turn: one for each byte, and one that would find the end.
fn fail_reads<R: Threads + Wait + Sync>(
    rt: &R,
    alloc: Global,
    asked: &Wanted<'_, '_>,
    failure: Failure,
    tally: &mut DeviceTally,
) {
    for at in 0..asked.order.texts() {
        for successes in 0..=count(asked.text(at)) {
            tally.note(fail_read(rt, alloc, asked, at, successes, failure));
        }
    }
}

/// Has each write of the answer fail in turn, one for each byte.
fn fail_writes<R: Threads + Wait + Sync>(
    rt: &R,
    alloc: Global,
    asked: &Wanted<'_, '_>,
    failure: Failure,
    tally: &mut DeviceTally,
) {
    for successes in 0..count(asked.answer) {
        tally.note(fail_write(rt, alloc, asked, successes, failure));
    }
}

/// Has each write of what is said fail in turn, one for each byte.
fn fail_tells<R: Threads + Wait + Sync>(
    rt: &R,
    alloc: Global,
    asked: &Wanted<'_, '_>,
    failure: Failure,
    tally: &mut DeviceTally,
) {
    for successes in 0..count(asked.said) {
        tally.note(fail_tell(rt, alloc, asked, successes, failure));
    }
}

/// The runs over devices that move a few bytes a call, and the runs over devices of which a call fails.
#[derive(Clone, Copy)]
struct DeviceTallies {
    pieces: DeviceTally,
    reads: DeviceTally,
    writes: DeviceTally,
    tells: DeviceTally,
}

impl DeviceTallies {
    /// Whether all runs ended as they should.
    fn are_right(&self) -> bool {
        let wrong = (
            self.pieces.wrong,
            self.reads.wrong,
            self.writes.wrong,
            self.tells.wrong,
        );
        wrong == (0, 0, 0, 0)
    }
}

/// Tries a command over devices that move a few bytes a call.
fn put_in_pieces<R: Threads + Wait + Sync>(
    rt: &R,
    alloc: Global,
    asked: &Wanted<'_, '_>,
) -> DeviceTally {
    let mut tally = NONE;
    for (reads, writes, tells) in [
        (1, 5, 2),
        (5, 1, 3),
        (7, 9, 1),
        (24, 38, 16),
        (CHUNK, 2, 40),
    ] {
        let pieces = Pieces {
            reads,
            writes,
            tells,
        };
        let devices = Devices::new(alloc, asked.texts, pieces);
        tally.note(run_over(rt, alloc, asked.order, devices).is_whole(asked));
    }
    tally
}

/// Tries a command over all these devices.
fn tried<R: Threads + Wait + Sync>(rt: &R, alloc: Global, asked: &Wanted<'_, '_>) -> DeviceTallies {
    let mut tallies = DeviceTallies {
        pieces: put_in_pieces(rt, alloc, asked),
        reads: NONE,
        writes: NONE,
        tells: NONE,
    };
    for failure in READ_FAILURES {
        fail_reads(rt, alloc, asked, failure, &mut tallies.reads);
    }
    for failure in WRITE_FAILURES {
        fail_writes(rt, alloc, asked, failure, &mut tallies.writes);
        fail_tells(rt, alloc, asked, failure, &mut tallies.tells);
    }
    tallies
}

/// How many calls there are of all readers, of the writer and of the teller, if each call moves one byte. `None` if the
/// command isn't answered in this way, or asks for more.
fn calls<R: Threads + Wait + Sync>(
    rt: &R,
    alloc: Global,
    asked: &Wanted<'_, '_>,
) -> Option<Counts> {
    let devices = Devices::new(alloc, asked.texts, ONE);
    let ran = run_over(rt, alloc, asked.order, devices);
    if !is_one_by_one(&ran, asked) {
        return None;
    }
    let [(first, _, _), (second, _, _), (third, _, _)] = ran.reads;
    let reads = first.saturating_add(second).saturating_add(third);
    Some((reads, ran.writes.0, ran.tells.0))
}

/// Tries a command over devices that move little, or fail, and prints a line: how many calls there are of all readers,
/// of the writer and of the teller, if each call moves one byte; and how many runs ended as they should over devices
/// that move a few bytes a call, and with one read, one write and one tell that fails. Gives whether all runs ended as
/// they should.
pub(crate) fn put_failing<R: Print + AllocGlobal + Threads + Wait + Sync>(
    rt: &R,
    name: &str,
    asked: Wanted<'_, '_>,
) -> io::Result<bool> {
    let words = asked.order.words();
    let Some((reads, writes, tells)) = calls(rt, rt.alloc(), &asked) else {
        println!(rt; "{words}, {name}: WRONG where each call moves one byte")?;
        return Ok(false);
    };
    let tallies = tried(rt, rt.alloc(), &asked);
    print!(rt; "{words}, {name}: reads {reads} writes {writes} tells {tells}")?;
    println!(rt;
        "; in pieces {} failed reads {} writes {} tells {}",
        tallies.pieces.right, tallies.reads.right, tallies.writes.right, tallies.tells.right
    )?;
    if tallies.are_right() {
        return Ok(true);
    }
    println!(rt;
        "WRONG: in pieces {} failed reads {} writes {} tells {}",
        tallies.pieces.wrong, tallies.reads.wrong, tallies.writes.wrong, tallies.tells.wrong
    )?;
    Ok(false)
}
