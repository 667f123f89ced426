//! Devices that never fail.

ghost use Rattle.std.specs.Prelude.{◌≡◌, ◌-◌, ◌^◌, ◌++◌, [], length, take, drop, min, IsOk, IfOk};

use crate::memory::give_front;
use crate::sink::Sink;
use crate::source::{Failed, Source};
use crate::transcript::Transcript;
use std::marker::Model;

/// Bytes in memory that every read gives as far as there is room. Contracts see the bytes that are left.
#[derive(Drop)]
pub struct SureSource {
    bytes: Vec<u8>,
    at: usize,
}

impl Model for SureSource {
    ghost use Rattle.std.specs.Prelude.{ℕ, ◌≤◌, List, drop, length};

    ghost Value = { List ℕ };

    ghost view = { λ s. drop s.at s.bytes.items };

    ghost invariant = { λ s. s.at ≤ length s.bytes.items };
}

impl SureSource {
    /// A source that has these bytes left.
    pub fn new(bytes: Vec<u8>) -> SureSource
        ensures { result ≡ bytes.items }
    {
        SureSource { bytes, at: 0 }
    }

    /// The bytes that are left.
    pub fn left(&self) -> &[u8]
        ensures { result.now ≡ self.now }
    {
        &self.bytes[self.at..]
    }
}

impl Source for SureSource {
    ghost use Rattle.std.specs.Prelude.{Some};

    ghost state = { λ s. record { left = Some s; faults = 0 } };

    fn read(&mut self, buf: &mut [u8]) -> Result<usize, Failed>
        ensures sure { IsOk result }
        ensures given { IfOk result (λ n. n ≡ min (length buf.old) (length self.old)) }
        ensures filled { IfOk result (λ n. buf.new ≡ take n self.old ++ drop n buf.old) }
        ensures rest { IfOk result (λ n. self.new ≡ drop n self.old) }
    {
        let count = give_front(&self.bytes[self.at..], buf.len(), buf);
        self.at += count;
        Ok(count)
    }
}

/// A sink that takes everything, and keeps no more than how much that was, so that it wants no memory. Contracts see
/// all bytes that it took.
#[derive(Drop)]
pub struct SureSink {
    count: u64,
    transcript: Transcript,
}

impl Model for SureSink {
    ghost use Rattle.std.specs.Prelude.{◌≡◌, ℕ, ◌-◌, ◌^◌, List, length, min};

    ghost Value = { List ℕ };

    ghost view = { λ s. s.transcript.bytes };

    ghost invariant = { λ s. s.count ≡ min (length s.transcript.bytes) (2 ^ 64 - 1) };
}

impl SureSink {
    /// A sink that took nothing yet.
    pub fn new() -> SureSink
        ensures { result ≡ [] }
    {
        SureSink {
            count: 0,
            transcript: Transcript::new(),
        }
    }

    /// How many bytes it took, or 2^64 - 1 where they are more.
    pub fn count(&self) -> u64
        ensures { result ≡ min (length self.now) (2 ^ 64 - 1) }
    {
        self.count
    }
}

impl Sink for SureSink {
    ghost use Rattle.std.specs.Prelude.{Some};

    ghost state = { λ s. record { taken = Some s; faults = 0 } };

    fn write(&mut self, piece: &[u8]) -> Result<usize, Failed>
        ensures sure { IsOk result }
        ensures whole { IfOk result (λ n. n ≡ length piece.now) }
        ensures after { self.new ≡ self.old ++ piece.now }
    {
        self.count = self.count.saturating_add(piece.len() as u64);
        self.transcript = self.transcript.with(piece);
        Ok(piece.len())
    }
}
