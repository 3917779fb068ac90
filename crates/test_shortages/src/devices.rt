//! Readers, a writer and a teller that count their calls, and give or take little,
//! or fail; and what came of a command over them.
//!
//! A call takes the time of the command.

use crate::asked::{AnyCommand, Wanted, carry};
use std::alloc::{Allocator, Global};
use std::sync::Wait;
use std::thread::Threads;
use test_cases::{Failure, Fake, Readers};
use wq_commands::{End, Metered};
use wq_run::CommandFault;

/// As many bytes as a command asks for at once.
pub(crate) const CHUNK: usize = 4096;

/// What was counted of a device: the calls, the bytes and the failures.
pub(crate) type Counts = (u64, u64, u64);

/// Of a device that wasn't asked.
pub(crate) const UNASKED: Counts = (0, 0, 0);

/// What a command reads from, writes its answer to, and says on what there is to be said.
#[derive(Drop)]
pub(crate) struct Devices<'t> {
    pub(crate) readers: Readers<Fake<&'t [u8]>>,
    pub(crate) writer: Metered<Fake<Vec<u8>>>,
    pub(crate) teller: Metered<Fake<Vec<u8>>>,
}

/// How many bytes a call moves, at most: of a reader, of the writer and of the teller.
#[derive(Clone, Copy)]
pub(crate) struct Pieces {
    pub(crate) reads: usize,
    pub(crate) writes: usize,
    pub(crate) tells: usize,
}

/// Whatever is asked for is moved.
pub(crate) const WHOLE: Pieces = Pieces {
    reads: CHUNK,
    writes: usize::MAX,
    tells: usize::MAX,
};

impl<'t> Devices<'t> {
    /// Devices that don't fail.
    pub(crate) fn new(alloc: Global, texts: [&'t [u8]; 3], pieces: Pieces) -> Devices<'t> {
        let [first, second, third] = texts;
        Devices {
            readers: Readers {
                first: Metered::new(Fake::in_pieces(first, pieces.reads)),
                second: Metered::new(Fake::in_pieces(second, pieces.reads)),
                third: Metered::new(Fake::in_pieces(third, pieces.reads)),
            },
            writer: Metered::new(Fake::in_pieces(Vec::new(alloc), pieces.writes)),
            teller: Metered::new(Fake::in_pieces(Vec::new(alloc), pieces.tells)),
        }
    }
}

/// A writer that takes this many bytes, one a call, and then fails.
pub(crate) fn failing_writer(
    alloc: Global,
    successes: u32,
    failure: Failure,
) -> Metered<Fake<Vec<u8>>> {
    Metered::new(Fake::failing_after(Vec::new(alloc), successes, failure))
}

/// How a command ended, what was counted of its devices, and what it wrote and said.
#[derive(Drop)]
pub(crate) struct DeviceRun {
    pub(crate) end: Result<End, CommandFault>,
    pub(crate) reads: [Counts; 3],
    pub(crate) writes: Counts,
    pub(crate) written: Vec<u8>,
    pub(crate) tells: Counts,
    pub(crate) said: Vec<u8>,
}

impl DeviceRun {
    /// Whether it is answered as it should be.
    pub(crate) fn is_answered(&self, asked: &Wanted<'_, '_>) -> bool {
        self.end == Ok(asked.end) && self.written.as_slice() == asked.answer
    }

    /// Whether it is answered, and all is said that there is to be said.
    pub(crate) fn is_whole(&self, asked: &Wanted<'_, '_>) -> bool {
        self.is_answered(asked) && self.said.as_slice() == asked.said
    }

    /// Whether nothing was said, or tried to be said.
    pub(crate) fn is_silent(&self) -> bool {
        self.tells == UNASKED && self.said.is_empty()
    }

    /// Whether nothing was written or said.
    pub(crate) fn is_untouched(&self) -> bool {
        self.writes == UNASKED && self.written.is_empty() && self.is_silent()
    }
}

/// What was counted of a device.
fn counts<D>(metered: &Metered<D>) -> Counts {
    (metered.calls(), metered.bytes(), metered.failures())
}

/// Does what is asked for over these devices.
pub(crate) fn run_over<R: Threads + Wait + Sync, A: Allocator + Copy + Send + Sync>(
    rt: &R,
    alloc: A,
    order: AnyCommand,
    mut devices: Devices<'_>,
) -> DeviceRun {
    let end = carry(rt, alloc, order, &mut devices);
    let Devices {
        readers,
        writer,
        teller,
    } = devices;
    DeviceRun {
        end,
        reads: [
            counts(&readers.first),
            counts(&readers.second),
            counts(&readers.third),
        ],
        writes: counts(&writer),
        written: writer.into_inner().device,
        tells: counts(&teller),
        said: teller.into_inner().device,
    }
}

/// How a command ends over devices that don't fail, and what it writes and says.
pub(crate) fn answered<R: Threads + Wait + Sync>(
    rt: &R,
    alloc: Global,
    order: AnyCommand,
    texts: [&[u8]; 3],
) -> Result<(End, Vec<u8>, Vec<u8>), CommandFault> {
    let DeviceRun {
        end,
        written,
        said,
        ..
    } = run_over(rt, alloc, order, Devices::new(alloc, texts, WHOLE));
    Ok((end?, written, said))
}
