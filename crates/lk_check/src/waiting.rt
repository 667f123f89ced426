//! The depths at which expressions are still to come.

use lk_link::limits::MOST_DEPTH;
use std::marker::Model;

/// Depths, of which only the last is at hand, and as many as an expression may be deep. They fill their room from its end on.
#[derive(Drop)]
pub struct Depths {
    room: [usize; MOST_DEPTH],
    /// How much of the room is free.
    free: usize,
}

impl Model for Depths {
    ghost use Rattle.std.specs.Prelude.{ℕ, ◌≤◌, List, drop};
    ghost use Rattle.lk_link.specs.declared.limits.TheConstants.{MOST_DEPTH};

    ghost Value = { List ℕ };

    ghost view = { λ a. drop a.free a.room };

    ghost invariant = { λ a. a.free ≤ MOST_DEPTH };
}

impl Depths {
    ghost use Rattle.std.specs.Prelude.{◌≡◌, ◌<◌, [], ◌∷◌, length};
    ghost use Rattle.lk_check.specs.DepthWalk.{Pops};
    ghost use Rattle.lk_link.specs.declared.limits.TheConstants.{MOST_DEPTH};

    /// No depths.
    pub fn new() -> Depths
        ensures { result ≡ [] }
    {
        Depths {
            room: [0; MOST_DEPTH],
            free: MOST_DEPTH,
        }
    }

    /// Puts a depth on top.
    pub fn push(&mut self, depth: usize)
        requires { length self.old < MOST_DEPTH }
        ensures { self.new ≡ depth ∷ self.old }
    {
        self.free -= 1;
        self.room[self.free] = depth;
    }

    /// Takes the depth on top, if there is one.
    pub fn pop(&mut self) -> Option<usize>
        ensures { Pops self.old result self.new }
    {
        if self.free == MOST_DEPTH {
            return None;
        }
        let depth = self.room[self.free];
        self.free += 1;
        Some(depth)
    }
}
