//! The numbers that wait for an operator while an expression is evaluated.

use lk_link::limits::MOST_DEPTH;
use std::marker::Model;

/// Numbers, of which only the last is at hand, and as many as an expression may be deep. They fill their room from its end on.
#[derive(Drop)]
pub(crate) struct Stack {
    room: [u64; MOST_DEPTH],
    /// How much of the room is free.
    free: usize,
}

impl Model for Stack {
    ghost use Rattle.std.specs.Prelude.{ℕ, ◌≤◌, List, drop};
    ghost use Rattle.lk_link.specs.declared.limits.TheConstants.{MOST_DEPTH};

    ghost Value = { List ℕ };

    ghost view = { λ a. drop a.free a.room };

    ghost invariant = { λ a. a.free ≤ MOST_DEPTH };
}

impl Stack {
    ghost use Rattle.std.specs.Prelude.{◌≡◌, ◌<◌, [], ◌∷◌, length};
    ghost use Rattle.lk_link.specs.declared.limits.TheConstants.{MOST_DEPTH};

    /// No numbers.
    pub(crate) fn new() -> Stack
        ensures { result ≡ [] }
    {
        Stack {
            room: [0; MOST_DEPTH],
            free: MOST_DEPTH,
        }
    }

    /// Puts a number on top.
    pub(crate) fn push(&mut self, number: u64)
        requires { length self.old < MOST_DEPTH }
        ensures { self.new ≡ number ∷ self.old }
    {
        self.free -= 1;
        self.room[self.free] = number;
    }

    /// Takes the number on top.
    pub(crate) fn pop(&mut self) -> u64
        requires { 0 < length self.old }
        ensures { self.old ≡ result ∷ self.new }
    {
        let number = self.room[self.free];
        self.free += 1;
        number
    }
}
