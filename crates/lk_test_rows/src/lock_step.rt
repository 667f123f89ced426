//! A gate that makes two workers take turns.

use lk_link::Gate;
use std::sync::atomic::{AtomicU64, Ordering};
use std::thread;

/// How often two workers wait for each other at most, in all.
const LIMIT: u64 = 50_000_000;

/// How many turns they take in lock step.
const STEPS: u64 = 100;

/// Lets a worker take a turn of group 1 or 2 only once the other group has had as many.
#[derive(Drop)]
pub struct LockStep {
    first: AtomicU64,
    second: AtomicU64,
    waits: AtomicU64,
}

impl LockStep {
    /// No turn was taken.
    pub fn new() -> LockStep {
        LockStep {
            first: AtomicU64::new(0),
            second: AtomicU64::new(0),
            waits: AtomicU64::new(0),
        }
    }

    /// Takes a turn, and waits until there are as many others.
    fn take(&self, own: &AtomicU64, others: &AtomicU64) {
        let turn = own.fetch_add(1, Ordering::SeqCst);
        if turn >= STEPS {
            return;
        }
        for _ in 0..LIMIT {
            if others.load(Ordering::SeqCst) > turn || self.have_waited_too_long() {
                return;
            }
            self.waits.fetch_add(1, Ordering::SeqCst);
            thread::yield_now();
        }
    }

    /// Whether workers waited as often as they may.
    fn have_waited_too_long(&self) -> bool {
        self.waits.load(Ordering::SeqCst) >= LIMIT
    }

    /// Whether both groups took all their turns, and none waited too long for the other. One worker alone never comes so far, nor do two
    /// that don't come to the gate.
    pub fn was_kept(&self) -> bool {
        self.first.load(Ordering::SeqCst) >= STEPS
            && self.second.load(Ordering::SeqCst) >= STEPS
            && !self.have_waited_too_long()
    }
}

impl Gate for LockStep {
    fn enter(&self, group: u32) {
        if group == 1 {
            self.take(&self.first, &self.second);
        } else if group == 2 {
            self.take(&self.second, &self.first);
        }
    }
}
