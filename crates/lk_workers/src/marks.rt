//! Marks of numbers that follow each other.

ghost use Rattle.std.specs.Prelude.{◌≡◌, ◌⊎◌, ◌<◌, ◌-◌, ℕ, false, true, IfOk, MatchBool, length, replicate, slice_set};
ghost use Rattle.lk_reach.specs.Marks.{IsMarked};
ghost use Rattle.lk_workers.specs.States.{HasSameNumbers, MarksOne, has_number, is_in};

use lk_link::marks::is_marked;
use std::alloc::{AllocError, Global};
use std::marker::Model;

/// Marks of numbers that follow each other. Contracts see the first number, and the marks.
#[derive(Drop)]
pub struct Marks {
    first: usize,
    pub(crate) marks: Vec<bool>,
}

impl Model for Marks {
    ghost use Rattle.lk_workers.specs.States.{Ranged};

    ghost Value = { Ranged };

    ghost view = { λ a. record { first = a.first; marks = a.marks.items } };
}

impl Marks {
    /// So many numbers from the first on, none of them marked.
    pub fn new(alloc: Global, first: usize, count: usize) -> Result<Marks, AllocError>
        ensures numbers { IfOk result (λ m. m ≡ record { first = first; marks = replicate count false }) }
        ensures none { IfOk result (λ m. (n : ℕ) → is_in m n ≡ false) }
    {
        Ok(Marks {
            first,
            marks: vec![in alloc; false; count]?,
        })
    }

    /// The first number.
    pub fn first(&self) -> usize
        ensures { result ≡ self.now.first }
    {
        self.first
    }

    /// The marks, lent.
    pub fn as_slice(&self) -> &[bool]
        ensures { result.now ≡ self.now.marks }
    {
        self.marks.as_slice()
    }

    /// Whether a number is marked.
    pub fn is_marked(&self, number: usize) -> bool
        ensures { result ≡ is_in self.now number }
    {
        if number < self.first {
            return false;
        }
        is_marked(self.marks.as_slice(), number - self.first)
    }

    /// Marks a number, if it is one of these, and answers whether it is. It has marks for the same numbers as before.
    pub fn mark(&mut self, number: usize) -> bool
        ensures marks { MatchBool result (self.new ≡ record { first = self.old.first; marks = slice_set self.old.marks (number - self.old.first) true }) (self.new ≡ self.old) }
        ensures one { MatchBool result (MarksOne self.old number self.new) (self.new ≡ self.old) }
        ensures numbers { HasSameNumbers self.old self.new }
        ensures has { result ≡ has_number self.old number }
    {
        if number < self.first || number - self.first >= self.marks.len() {
            return false;
        }
        let place = number - self.first;
        self.marks[place] = true;
        true
    }

    /// Sets the marks in a list that has one for every number.
    pub fn gather(&self, room: &mut Vec<bool>)
        ensures count { length room.new.items ≡ length room.old.items }
        ensures kept { (n : ℕ) → IsMarked room.old.items n → IsMarked room.new.items n }
        ensures only { (n : ℕ) → IsMarked room.new.items n → IsMarked room.old.items n ⊎ (is_in self.now n ≡ true) }
        ensures all { (n : ℕ) → n < length room.old.items → is_in self.now n ≡ true → IsMarked room.new.items n }
    {
        if room.len() <= self.first {
            return;
        }
        for place in 0..self.marks.len().min(room.len() - self.first) {
            if self.marks[place] {
                set_mark(room, self.first + place);
            }
        }
    }
}

/// Sets a mark.
fn set_mark(marks: &mut Vec<bool>, place: usize)
    requires { place < length marks.old.items }
    ensures { marks.new.items ≡ slice_set marks.old.items place true }
{
    marks[place] = true;
}
