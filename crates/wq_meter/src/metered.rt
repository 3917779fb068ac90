//! A reader or a writer whose calls are counted, so that a bound on the work that a command asks of the outside can be
//! stated and kept. Each method makes one call of the device, and tries nothing twice. Apart from that call, each takes
//! constant time.
ghost use Rattle.std.specs.Prelude.{◌≡◌, ◌<◌, ◌≤◌, length, IfOk, OnOk, OnErr, IsOkUnless};
ghost use Rattle.std.specs.Result.{result_unwrap_or};
ghost use Rattle.std.specs.Io.KnownBytes.{ReadConsumes, WriteAppends};
ghost use Rattle.wq_meter.specs.Meter.{count_after};

use crate::fault::Fault;
use std::io::{Read, Write};
use std::marker::Model;

/// A device with counts of the calls made to it. A count stops at `u64::MAX`.
///
/// Contracts see the device and its counts as a `Meter`.
#[derive(Debug, Drop)]
pub struct Metered<D> {
    device: D,
    calls: u64,
    bytes: u64,
    failures: u64,
}

impl<D> Model for Metered<D> {
    ghost use Rattle.wq_meter.specs.Meter.{Meter, meter_code};

    ghost Value = { Meter D };

    ghost coded = { meter_code D.code };

    ghost view = { λ m. record { device = m.device; calls = m.calls; bytes = m.bytes; failures = m.failures } };
}

impl<D> Metered<D> {
    /// The device, with every count at 0.
    pub fn new(device: D) -> Metered<D>
        ensures { result ≡ record { device = device; calls = 0; bytes = 0; failures = 0 } }
    {
        Metered {
            device,
            calls: 0,
            bytes: 0,
            failures: 0,
        }
    }

    /// How many calls were made to the device.
    pub fn calls(&self) -> u64
        ensures { result ≡ self.now.calls }
    {
        self.calls
    }

    /// How many bytes these calls moved.
    pub fn bytes(&self) -> u64
        ensures { result ≡ self.now.bytes }
    {
        self.bytes
    }

    /// How many of these calls failed.
    pub fn failures(&self) -> u64
        ensures { result ≡ self.now.failures }
    {
        self.failures
    }

    /// The device, without its counts.
    pub fn into_inner(self) -> D
        ensures { result ≡ self.device }
    {
        self.device
    }
}

impl<R: Read> Metered<R> {
    /// Reads once into the front of `buffer`, and returns how many bytes arrived. That is 0 only at the end of the
    /// input, or if `buffer` is empty.
    ///
    /// The only error is `Fault::Read`, if the reader failed. An interrupted call failed, too.
    pub fn read(&mut self, buffer: &mut [u8]) -> Result<usize, Fault>
        ensures within { IfOk result (λ count. count ≤ length buffer.new) }
        ensures known_bytes { ReadConsumes (R.remaining self.old.device) (R.remaining self.new.device)
            result buffer.new }
        ensures calls { self.new.calls ≡ count_after self.old.calls 1 }
        ensures bytes { self.new.bytes ≡ count_after self.old.bytes (result_unwrap_or result 0) }
        ensures failed { OnErr result (self.new.failures ≡ count_after self.old.failures 1) }
        ensures not_failed { OnOk result (self.new.failures ≡ self.old.failures) }
        ensures only_error { IsOkUnless result Fault.Read }
    {
        self.calls = self.calls.saturating_add(1);
        match self.device.read(buffer) {
            Ok(count) => {
                self.bytes = self.bytes.saturating_add(count as u64);
                Ok(count)
            }
            Err(_) => {
                self.failures = self.failures.saturating_add(1);
                Err(Fault::Read)
            }
        }
    }
}

impl<W: Write> Metered<W> {
    /// Writes once from the front of `bytes`, and returns how many were taken: at least one, if there is one.
    ///
    /// The only error is `Fault::Write`, if the writer failed or took none of the bytes, though there were some. Then
    /// nothing was written. An interrupted call failed, too.
    pub fn write(&mut self, bytes: &[u8]) -> Result<usize, Fault>
        ensures within { IfOk result (λ count. count ≤ length bytes.now) }
        ensures some { IfOk result (λ count. 0 < length bytes.now → 0 < count) }
        ensures known_bytes { WriteAppends (W.contents self.old.device) (W.contents self.new.device)
            result bytes.now }
        ensures calls { self.new.calls ≡ count_after self.old.calls 1 }
        ensures bytes { self.new.bytes ≡ count_after self.old.bytes (result_unwrap_or result 0) }
        ensures failed { OnErr result (self.new.failures ≡ count_after self.old.failures 1) }
        ensures not_failed { OnOk result (self.new.failures ≡ self.old.failures) }
        ensures only_error { IsOkUnless result Fault.Write }
    {
        self.calls = self.calls.saturating_add(1);
        match self.device.write(bytes) {
            Ok(count) if count > 0 || bytes.is_empty() => {
                self.bytes = self.bytes.saturating_add(count as u64);
                Ok(count)
            }
            _ => {
                self.failures = self.failures.saturating_add(1);
                Err(Fault::Write)
            }
        }
    }
}
