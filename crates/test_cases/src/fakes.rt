//! Readers and writers that misbehave, which no clause of `std` describes. Each call takes time linear in the number of
//! bytes that it moves.

ghost use Rattle.std.specs.Prelude.{◌≤◌, IfOk};

use std::io;
use std::io::{ErrorKind, Read, Write};

/// Fills the buffer at each call, and never ends.
#[derive(Drop)]
pub struct Endless;

impl Read for Endless {
    fn read(&mut self, buffer: &mut [u8]) -> io::Result<usize> {
        buffer.fill(b'x');
        Ok(buffer.len())
    }
}

/// How a call fails.
#[derive(Clone, Copy)]
pub enum Failure {
    /// With an error.
    Error(ErrorKind),
    /// Moves nothing: for a writer that is a failure, for a reader the end of its text.
    Nothing,
}

/// Moves at most this many bytes a call, and has one call fail after this many that succeed.
#[derive(Drop)]
pub struct Fake<D> {
    pub device: D,
    pub at_most: usize,
    pub successes: u32,
    pub failure: Failure,
}

impl<D> Fake<D> {
    /// None of the first four thousand million calls fails.
    pub fn in_pieces(device: D, at_most: usize) -> Fake<D> {
        Fake {
            device,
            at_most,
            successes: u32::MAX,
            failure: Failure::Nothing,
        }
    }

    /// Each call except the one that fails moves one byte.
    pub fn failing_after(device: D, successes: u32, failure: Failure) -> Fake<D> {
        Fake {
            device,
            at_most: 1,
            successes,
            failure,
        }
    }

    /// How many of this many bytes are moved, if this call doesn't fail.
    fn count(&mut self, bytes: usize) -> io::Result<usize>
        ensures { IfOk result (λ count. count ≤ bytes) }
    {
        let fails = self.successes == 0;
        self.successes = self.successes.wrapping_sub(1);
        if !fails {
            return Ok(self.at_most.min(bytes));
        }
        match self.failure {
            Failure::Error(kind) => Err(io::Error::from(kind)),
            Failure::Nothing => Ok(0),
        }
    }
}

impl<R: Read> Read for Fake<R> {
    fn read(&mut self, buffer: &mut [u8]) -> io::Result<usize> {
        let count = self.count(buffer.len())?;
        self.device.read(&mut buffer[..count])
    }
}

impl<W: Write> Write for Fake<W> {
    fn write(&mut self, bytes: &[u8]) -> io::Result<usize> {
        let count = self.count(bytes.len())?;
        self.device.write(&bytes[..count])
    }

    fn flush(&mut self) -> io::Result<()> {
        self.device.flush()
    }
}
