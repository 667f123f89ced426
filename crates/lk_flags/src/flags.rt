//! A table of flag words, and the passes by which threads set flags in it.

ghost use Rattle.std.specs.Prelude.{◌≡◌, ◌<◌, ◌+◌, ◌-◌, [], ◌∷◌, ◌++◌, IfOk, length, slice_index};
ghost use Rattle.lk_flags.specs.Flags.{AllWithin, AreInTurn, AreLeft, HaveNoMore, IsFound, Within, all_parts};
ghost use Rattle.lk_flags.specs.Rule.{IsKeptBy, SetsFlags, view_of};

use crate::lists::Reach;
use atomic_table::{Join, Play, Seat, Split, Table, TableRule};
use std::alloc::{AllocError, Global};
use std::collections::LinkedList;
use std::marker::{Model, PhantomData};

/// Flags that were set in a word, and the word as it was found. This crate makes no value of it.
pub struct FlagSet {
    pub word: usize,
    pub bits: u64,
    pub found: u64,
}

/// What a thread knows: how many parts it has of the right to set flags, and those that it set, with what it found there. This
/// crate makes no value of it.
pub struct View {
    parts: u64,
    sets: LinkedList<FlagSet>,
}

/// The rule of a table: all that was set, one after the other, made its words of those that were handed in, and each is within its
/// bound.
pub struct Flags<J: Reach> {
    of: PhantomData<J>,
}

impl<J: Reach> TableRule<u8, View, ()> for Flags<J> {
    ghost holds = { λ _ s. IsKeptBy J.lists.handed J.lists.words s };

    ghost first = { λ _. view_of all_parts [] };
}

struct SetFlags<J: Reach> {
    of: PhantomData<J>,
}

impl<J: Reach> Play<u8, View> for SetFlags<J> {
    ghost then = { SetsFlags J.lists.handed J.lists.words };
}

struct Cut;

impl Split<View> for Cut {
    ghost left = { λ v. view_of (v.parts - 1) v.sets };

    ghost right = { λ _. view_of 1 [] };
}

impl Join<View> for Cut {
    ghost both = { λ v w. view_of (v.parts + w.parts) (v.sets ++ w.sets) };

    ghost spent = { view_of 0 [] };
}

/// Words of flags, at least one. Contracts see which table it is (libwild: `AtomicPerSymbolFlags`).
#[derive(Drop)]
pub struct FlagTable<J: Reach> {
    table: Table<u8, View, (), Flags<J>, Global>,
    /// As many words, to which those of the table are moved at the end.
    room: Vec<u64>,
}

impl<J: Reach> Model for FlagTable<J> {
    ghost use Rattle.std.specs.Prelude.{◌≡◌, ◌<◌, length};
    ghost use Rattle.lk_flags.specs.Flags.{TableId};

    ghost Value = { TableId };

    ghost view = { λ t. t.table.shared.table_id };

    ghost invariant = { λ t. (t.table.shared.table_id.words ≡ length J.lists.words) × (t.table.shared.table_id.slots ≡ 0) × (0 < length J.lists.words) × (length t.room.items ≡ length J.lists.words) };
}

/// The right to set flags in a table. Contracts see which table, how many parts of the right it is, and what was set and found. Of one
/// that has all parts `close` tells that words have nothing else. That it takes no bytes no clause says.
#[derive(Drop)]
pub struct FlagPass {
    seat: Seat<u8, View>,
}

impl Model for FlagPass {
    ghost use Rattle.std.specs.Prelude.{◌≡◌, ◌<◌, []};
    ghost use Rattle.lk_flags.specs.Flags.{Pass};

    ghost Value = { Pass };

    ghost view = { λ p. record { table = p.seat.table_id; parts = p.seat.me.0.parts; sets = p.seat.me.0.sets } };

    ghost invariant = { λ p. (p.seat.me.1 ≡ []) × (0 < p.seat.me.0.parts) };
}

impl<J: Reach> FlagTable<J> {
    /// A table of these words, the flags that are handed in, with the first pass for it, which has all parts and has set nothing. It
    /// keeps room for the words twice, which no clause says.
    pub fn new(alloc: Global, words: &[u64]) -> Result<(FlagTable<J>, FlagPass), AllocError>
        requires handed { words.now ≡ J.lists.handed }
        requires count { length J.lists.handed ≡ length J.lists.words }
        requires spare { 0 < length J.lists.handed }
        requires bounded { AllWithin J.lists.handed J.lists.words }
        ensures table { IfOk result (λ t. t.1.table ≡ t.0) }
        ensures parts { IfOk result (λ t. t.1.parts ≡ all_parts) }
        ensures sets { IfOk result (λ t. t.1.sets ≡ []) }
    {
        let room = Vec::from_elem(alloc, 0u64, words.len())?;
        let (table, seat) = Table::of_words(alloc, words, &())?;
        Ok((FlagTable { table, room }, FlagPass { seat }))
    }

    /// Sets flags in a word, and answers the word as found, which the pass keeps with them: it has what was handed in and what the pass
    /// had set there, and is within its bound. `close` tells how it goes with what other passes found.
    pub fn set(&self, pass: &mut FlagPass, word: usize, bits: u64) -> u64
        requires own { pass.old.table ≡ self.now }
        requires place { word < length J.lists.words }
        requires bounded { Within bits (slice_index J.lists.words word) }
        ensures table { pass.new.table ≡ pass.old.table }
        ensures parts { pass.new.parts ≡ pass.old.parts }
        ensures sets { pass.new.sets ≡ pass.old.sets ++ record { word = word; bits = bits; found = result } ∷ [] }
        ensures found { IsFound J.lists.handed J.lists.words pass.old.sets word result }
    {
        self.table
            .shared
            .fetch_or::<SetFlags<J>>(&mut pass.seat, word, bits)
    }

    /// A further pass, which has set nothing, with one of the parts.
    pub fn split(&self, pass: &mut FlagPass) -> FlagPass
        requires own { pass.old.table ≡ self.now }
        requires parts { 1 < pass.old.parts }
        ensures rest { pass.new ≡ record { table = pass.old.table; parts = pass.old.parts - 1; sets = pass.old.sets } }
        ensures further { result ≡ record { table = pass.old.table; parts = 1; sets = [] } }
    {
        FlagPass {
            seat: self.table.shared.split_seat::<Cut>(&mut pass.seat),
        }
    }

    /// Joins a pass to another, which then has the parts of both, and has set what both had.
    pub fn join(&self, pass: &mut FlagPass, other: FlagPass)
        requires own { pass.old.table ≡ self.now }
        requires same { other.table ≡ self.now }
        ensures table { pass.new.table ≡ pass.old.table }
        ensures parts { pass.new.parts ≡ pass.old.parts + other.parts }
        ensures sets { pass.new.sets ≡ pass.old.sets ++ other.sets }
    {
        let FlagPass { seat } = other;
        self.table.shared.join_seat::<Cut>(&mut pass.seat, seat);
    }

    /// The words at the end, which have what was handed in and all that the pass set, and are within their bounds. If it has all parts,
    /// there is one order of all that it set in which each word that was found is the one handed in, joined with what was set there
    /// before; so the words have nothing else. Takes no memory.
    pub fn close(self, pass: FlagPass) -> Vec<u64>
        requires own { pass.table ≡ self }
        ensures left { AreLeft J.lists.handed J.lists.words pass.sets result.items }
        ensures in_turn { pass.parts ≡ all_parts → AreInTurn J.lists.handed pass.sets result.items }
        ensures whole { pass.parts ≡ all_parts → HaveNoMore J.lists.handed pass.sets result.items }
    {
        let FlagTable { table, mut room } = self;
        let FlagPass { seat } = pass;
        let closed = table.close_with(seat);
        for place in 0..room.len() {
            room[place] = closed.word(place);
        }
        closed.free();
        room
    }
}
