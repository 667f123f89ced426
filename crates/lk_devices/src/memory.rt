//! Devices in memory: for tests and for callers that have their input at hand.

ghost use Rattle.std.specs.Prelude.{◌≡◌, ◌+◌, ◌-◌, ◌^◌, ◌<◌, ◌≤◌, ◌↔◌, [], ◌++◌, length, take, drop, min};
ghost use Rattle.std.specs.Prelude.{Contains, IfOk, IsErr, MatchResult};
ghost use Rattle.lk_devices.specs.Memory.{after_fault, after_write, empty_sink, fresh, read_count, with_bytes, write_count};

use crate::faults::FaultCount;
use crate::sink::Sink;
use crate::source::{Failed, Source};
use std::alloc::{AllocError, Global};
use std::marker::Model;

/// Bytes in memory, at most so many to a read, with reads that fail: those whose number, counted from 0, is listed.
#[derive(Drop)]
pub struct MemorySource {
    bytes: Vec<u8>,
    at: usize,
    most: usize,
    failing: Vec<u64>,
    next_call: u64,
    faults: FaultCount,
}

impl Model for MemorySource {
    ghost use Rattle.std.specs.Prelude.{◌<◌, ◌≤◌, drop, length};
    ghost use Rattle.lk_devices.specs.Memory.{MemoryState};

    ghost Value = { MemoryState };

    ghost view = { λ s. record {
      bytes = drop s.at s.bytes.items;
      most = s.most;
      failing = s.failing.items;
      next_call = s.next_call;
      faults = s.faults;
    } };

    ghost invariant = { λ s. (s.at ≤ length s.bytes.items) × (0 < s.most) };
}

impl MemorySource {
    /// A source that has these bytes left. A read gives at most `most` of them, which is at least 1.
    pub fn new(bytes: Vec<u8>, most: usize, failing: Vec<u64>) -> MemorySource
        requires { 0 < most }
        ensures { result ≡ fresh bytes.items most failing.items }
    {
        MemorySource {
            bytes,
            at: 0,
            most,
            failing,
            next_call: 0,
            faults: FaultCount::new(),
        }
    }

    /// The bytes that are left.
    pub fn left(&self) -> &[u8]
        ensures { result.now ≡ self.now.bytes }
    {
        &self.bytes[self.at..]
    }

    /// How many reads failed, or 2^64 - 1 where they are more.
    pub fn faults(&self) -> u64
        ensures { result ≡ min self.now.faults (2 ^ 64 - 1) }
    {
        self.faults.seen()
    }
}

impl Source for MemorySource {
    ghost use Rattle.std.specs.Prelude.{Some};

    ghost state = { λ s. record { left = Some s.bytes; faults = s.faults } };

    fn read(&mut self, buf: &mut [u8]) -> Result<usize, Failed>
        ensures fails { IsErr result ↔ Contains self.old.failing self.old.next_call }
        ensures given { IfOk result (λ n. n ≡ read_count self.old (length buf.old)) }
        ensures at_end { IfOk result (λ n. n ≡ 0 → 0 < length buf.old → self.old.bytes ≡ []) }
        ensures filled { IfOk result (λ n. buf.new ≡ take n self.old.bytes ++ drop n buf.old) }
        ensures after { MatchResult result
            (λ n. self.new ≡ with_bytes self.old (drop n self.old.bytes))
            (λ _. self.new ≡ after_fault self.old) }
    {
        let number = self.next_call;
        self.next_call = number.saturating_add(1);
        if self.failing.contains(&number) {
            self.faults.rise();
            return Err(Failed);
        }
        let count = give_front(&self.bytes[self.at..], self.most, buf);
        self.at += count;
        Ok(count)
    }
}

/// Copies as many bytes from the front of `bytes` as there are, as fit, and as `most` allows; answers how many.
pub(crate) fn give_front(bytes: &[u8], most: usize, buf: &mut [u8]) -> usize
    ensures count { result ≡ min (min most (length buf.old)) (length bytes.now) }
    ensures filled { buf.new ≡ take result bytes.now ++ drop result buf.old }
{
    let count = most.min(buf.len()).min(bytes.len());
    buf[..count].copy_from_slice(&bytes[..count]);
    count
}

/// A sink in memory, which takes at most so many bytes to a write (0: none at all) and so many in all, with writes
/// that fail: those whose number, counted from 0, is listed. Its room is there from the start, so that no write wants
/// memory.
#[derive(Drop)]
pub struct MemorySink {
    room: Vec<u8>,
    used: usize,
    most: usize,
    failing: Vec<u64>,
    next_call: u64,
    faults: FaultCount,
}

impl Model for MemorySink {
    ghost use Rattle.std.specs.Prelude.{◌≤◌, take, vec_len};
    ghost use Rattle.lk_devices.specs.Memory.{MemorySinkState};

    ghost Value = { MemorySinkState };

    ghost view = { λ s. record {
      device = record {
        bytes = take s.used s.room.items;
        most = s.most;
        failing = s.failing.items;
        next_call = s.next_call;
        faults = s.faults;
      };
      room = vec_len s.room;
    } };

    ghost invariant = { λ s. s.used ≤ vec_len s.room };
}

impl MemorySink {
    /// A sink that took nothing yet and has room for `room` bytes. A write takes at most `most` bytes. Refuses where
    /// there is no memory for the room.
    pub fn new(
        alloc: Global,
        room: usize,
        most: usize,
        failing: Vec<u64>,
    ) -> Result<MemorySink, AllocError>
        ensures { IfOk result (λ sink. sink ≡ empty_sink room most failing.items) }
    {
        let mut bytes = Vec::new(alloc);
        bytes.resize(room, 0)?;
        Ok(MemorySink {
            room: bytes,
            used: 0,
            most,
            failing,
            next_call: 0,
            faults: FaultCount::new(),
        })
    }

    /// All that it took.
    pub fn written(&self) -> &[u8]
        ensures { result.now ≡ self.now.device.bytes }
    {
        &self.room[..self.used]
    }

    /// How many writes failed or took none of some bytes, or 2^64 - 1 where they are more.
    pub fn faults(&self) -> u64
        ensures { result ≡ min self.now.device.faults (2 ^ 64 - 1) }
    {
        self.faults.seen()
    }
}

impl Sink for MemorySink {
    ghost use Rattle.std.specs.Prelude.{Some};

    ghost state = { λ s. record { taken = Some s.device.bytes; faults = s.device.faults } };

    fn write(&mut self, piece: &[u8]) -> Result<usize, Failed>
        ensures fails { IsErr result ↔ Contains self.old.device.failing self.old.device.next_call }
        ensures took { IfOk result (λ n. n ≡ write_count self.old (length piece.now)) }
        ensures room { self.new.room ≡ self.old.room }
        ensures after { MatchResult result
            (λ n. self.new.device ≡ after_write self.old.device n piece.now)
            (λ _. self.new.device ≡ after_fault self.old.device) }
    {
        let number = self.next_call;
        self.next_call = number.saturating_add(1);
        if self.failing.contains(&number) {
            self.faults.rise();
            return Err(Failed);
        }
        let left = self.room.len() - self.used;
        let count = self.most.min(piece.len()).min(left);
        keep_piece(&mut self.room, self.used, &piece[..count]);
        self.used += count;
        if count == 0 && !piece.is_empty() {
            self.faults.rise();
        }
        Ok(count)
    }
}

/// Writes a piece into the room behind what is used, for which there is enough.
fn keep_piece(room: &mut [u8], used: usize, piece: &[u8])
    requires { used + length piece.now ≤ length room.old }
    ensures { take (used + length piece.now) room.new ≡ take used room.old ++ piece.now }
{
    room[used..used + piece.len()].copy_from_slice(piece);
}
