//! Standard input and output, or any other reader and writer of the system, as devices. They tell the bytes that are
//! left or taken wherever the reader or the writer below tells them, as std's readers and writers over memory do.
//!
//! A call that a signal interrupts moved nothing and is tried again, a bounded number of times; only what fails
//! otherwise, or too often, is a fault.

ghost use Rattle.std.specs.Prelude.{◌≡◌, ◌-◌, ◌^◌, ◌<◌, ◌≤◌, min, length, take, IfOk, OnErr};
ghost use Rattle.std.specs.Io.KnownBytes.{Appends, Consumes, IsAtEnd, Keeps};

use crate::faults::FaultCount;
use crate::sink::Sink;
use crate::source::{Failed, Source};
use std::io::{ErrorKind, Read, Write};
use std::marker::Model;

/// How often a call is tried that is interrupted again and again.
const TRIES: u32 = 1000;

/// One read, tried again where it was interrupted.
fn read_patiently<R: Read>(reader: &mut R, buf: &mut [u8]) -> Result<usize, Failed>
    ensures within { IfOk result (λ n. n ≤ length buf.new) }
    ensures bytes { IfOk result (λ n. Consumes (R.remaining reader.old) (R.remaining reader.new) (take n buf.new)) }
    ensures end { IfOk result (λ n. n ≡ 0 → 0 < length buf.new → IsAtEnd (R.remaining reader.new)) }
{
    for _ in 0..TRIES {
        match reader.read(buf) {
            Ok(count) => return Ok(count),
            Err(error) if error.kind() == ErrorKind::Interrupted => {}
            Err(_) => return Err(Failed),
        }
    }
    Err(Failed)
}

/// One write, tried again where it was interrupted.
fn write_patiently<W: Write>(writer: &mut W, piece: &[u8]) -> Result<usize, Failed>
    ensures within { IfOk result (λ n. n ≤ length piece.now) }
    ensures bytes { IfOk result (λ n. Appends (W.contents writer.old) (W.contents writer.new) (take n piece.now)) }
    ensures failed { OnErr result (Keeps (W.contents writer.old) (W.contents writer.new)) }
{
    for _ in 0..TRIES {
        match writer.write(piece) {
            Ok(count) => return Ok(count),
            Err(error) if error.kind() == ErrorKind::Interrupted => {}
            Err(_) => return Err(Failed),
        }
    }
    Err(Failed)
}

/// A reader, as `rt.reader()` gives it, with a count of its failures. Contracts see both.
#[derive(Drop)]
pub struct StandardInput<R> {
    reader: R,
    failures: FaultCount,
}

impl<R> Model for StandardInput<R> {
    ghost use Rattle.lk_devices.specs.Standard.{Counted};

    ghost Value = { Counted R };

    ghost view = { λ s. record { device = s.reader; faults = s.failures } };
}

impl<R> StandardInput<R> {
    /// A reader that has not failed yet.
    pub fn new(reader: R) -> StandardInput<R>
        ensures { result ≡ record { device = reader; faults = 0 } }
    {
        StandardInput {
            reader,
            failures: FaultCount::new(),
        }
    }

    /// How often it failed, or 2^64 - 1 where that is more.
    pub fn failures(&self) -> u64
        ensures { result ≡ min self.now.faults (2 ^ 64 - 1) }
    {
        self.failures.seen()
    }
}

impl<R: Read> Source for StandardInput<R> {
    ghost state = { λ s. record { left = R.remaining s.device; faults = s.faults } };

    fn read(&mut self, buf: &mut [u8]) -> Result<usize, Failed> {
        match read_patiently(&mut self.reader, buf) {
            Ok(count) => Ok(count),
            Err(fault) => {
                self.failures.rise();
                Err(fault)
            }
        }
    }
}

/// A writer, as `io::writer(&rt)` gives it, with a count of its failures; to take none of some bytes is one. Contracts
/// see both.
#[derive(Drop)]
pub struct StandardOutput<W> {
    writer: W,
    failures: FaultCount,
}

impl<W> Model for StandardOutput<W> {
    ghost use Rattle.lk_devices.specs.Standard.{Counted};

    ghost Value = { Counted W };

    ghost view = { λ s. record { device = s.writer; faults = s.failures } };
}

impl<W> StandardOutput<W> {
    /// A writer that has not failed yet.
    pub fn new(writer: W) -> StandardOutput<W>
        ensures { result ≡ record { device = writer; faults = 0 } }
    {
        StandardOutput {
            writer,
            failures: FaultCount::new(),
        }
    }

    /// How often it failed, or 2^64 - 1 where that is more.
    pub fn failures(&self) -> u64
        ensures { result ≡ min self.now.faults (2 ^ 64 - 1) }
    {
        self.failures.seen()
    }
}

impl<W: Write> Sink for StandardOutput<W> {
    ghost state = { λ s. record { taken = W.contents s.device; faults = s.faults } };

    fn write(&mut self, piece: &[u8]) -> Result<usize, Failed> {
        match write_patiently(&mut self.writer, piece) {
            Ok(0) if !piece.is_empty() => {
                self.failures.rise();
                Ok(0)
            }
            Ok(count) => Ok(count),
            Err(fault) => {
                self.failures.rise();
                Err(fault)
            }
        }
    }
}
