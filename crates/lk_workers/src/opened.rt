//! What states had done as they came out of their locks.

ghost use Rattle.std.specs.Prelude.{◌≡◌, ◌++◌, ◌∷◌, ◌||◌, ℕ, [], List};
ghost use Rattle.std.specs.Borrow.{ftrue};
ghost use Rattle.lk_link.specs.Marks.{is_marked};
ghost use Rattle.lk_workers.specs.Asked.{AreReached};
ghost use Rattle.lk_workers.specs.States.{Ranged, is_in};

use crate::marks::Marks;
use crate::state::GroupState;
use lk_flags::Reach;
use std::marker::Model;
use std::sync::Mutex;

/// Lists of marks. It exists in proofs alone; that it takes no bytes no clause says. Only `Opened::open` adds to it, by a call that no
/// other module has: the marks of the symbols and of the sections that are done in a state, as it comes out of a lock.
#[derive(Drop)]
pub struct Opened {
    ghost marks: { List Ranged },
}

impl Model for Opened {
    ghost also_owns = { λ _. ftrue };
}

impl Opened {
    /// No state was taken out.
    pub fn new() -> Opened
        ensures { result.marks ≡ [] }
    {
        Opened {}
    }

    /// The same marks, and those of one list more.
    fn and(&self, _marks: &Marks) -> Opened
        ensures { result.marks ≡ self.now.marks ++ _marks.now ∷ [] }
    {
        Opened {}
    }

    /// Takes a state out of its lock, adds which of its symbols and of its sections are done, and sets their marks in a list that has one
    /// for every unit. These marks are all that is left of the state, so none is opened twice.
    pub(crate) fn open<J: Reach>(
        &mut self,
        lock: Mutex<GroupState<J>>,
        room: &mut Vec<bool>,
    ) -> (Marks, Marks)
        requires { AreReached J.lists room.old.items }
        ensures marks { self.new.marks ≡ self.old.marks ++ result.0 ∷ result.1 ∷ [] }
        ensures reached { AreReached J.lists room.new.items }
        ensures done { (n : ℕ) → is_marked room.new.items n ≡ is_marked room.old.items n || (is_in result.0 n || is_in result.1 n) }
    {
        let (symbols, sections) = lock.into_inner().gather(room);
        *self = self.and(&symbols).and(&sections);
        (symbols, sections)
    }
}
