//! How often a device has failed.

ghost use Rattle.std.specs.Prelude.{◌≡◌, ◌+◌, ◌-◌, ◌^◌, min};

use crate::transcript::Transcript;
use std::marker::Model;

/// The count of a device's faults: one byte is noted for each. Contracts see the number itself, which has no bound; what
/// the program can look at stands still at 2^64 - 1, so that it never wraps.
#[derive(Drop)]
pub struct FaultCount {
    seen: u64,
    noted: Transcript,
}

impl Model for FaultCount {
    ghost use Rattle.std.specs.Prelude.{◌≡◌, ℕ, ◌-◌, ◌^◌, length, min};

    ghost Value = { ℕ };

    ghost view = { λ count. length count.noted.bytes };

    ghost invariant = { λ count. count.seen ≡ min (length count.noted.bytes) (2 ^ 64 - 1) };
}

impl FaultCount {
    /// No fault yet.
    pub fn new() -> FaultCount
        ensures { result ≡ 0 }
    {
        FaultCount {
            seen: 0,
            noted: Transcript::new(),
        }
    }

    /// One fault more.
    pub fn rise(&mut self)
        ensures { self.new ≡ self.old + 1 }
    {
        self.seen = self.seen.saturating_add(1);
        self.noted = self.noted.with(&[1]);
    }

    /// The faults so far, or 2^64 - 1 where there were more.
    pub fn seen(&self) -> u64
        ensures { result ≡ min self.now (2 ^ 64 - 1) }
    {
        self.seen
    }
}
