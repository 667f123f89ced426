//! Alignments: powers of two up to 65,536.

ghost use Rattle.std.specs.Prelude.{◌≡◌, ◌+◌, ◌-◌, ◌%◌, ◌^◌, ◌<◌, ◌≤◌, IsTrue, IfSome, SomeIff, min, max};
ghost use Rattle.std.specs.Int.{next_multiple_of};
ghost use Rattle.lk_link.specs.Alignments.{is_alignment, IsLeastMultiple, IsGreatestMultiple, IsLeastCongruent, next_congruent, AlignmentsArePowers};

use std::marker::Model;

/// The greatest alignment.
pub const GREATEST_ALIGNMENT: u64 = 65536;

/// An alignment, which contracts see as its value: a power of two up to 65,536. Compares as its value
/// (libwild: `Alignment`).
#[derive(Clone, Copy, Debug, PartialEq, Eq, PartialOrd, Ord, Hash)]
pub struct Alignment {
    value: u64,
}

impl Model for Alignment {
    ghost use Rattle.std.specs.Prelude.{ℕ, IsTrue};
    ghost use Rattle.lk_link.specs.Alignments.{is_alignment};

    ghost Value = { ℕ };

    ghost view = { λ a. a.value };

    ghost invariant = { λ a. IsTrue (is_alignment a.value) };

    ghost inverse = { λ n. record { value = n } };
}

impl Alignment {
    /// The alignment of this value; none where it is no power of two up to 65,536.
    pub fn new(value: u64) -> Option<Alignment>
        ensures { SomeIff result (IsTrue (is_alignment value)) value }
    {
        if is_valid(value) {
            Some(Alignment { value })
        } else {
            None
        }
    }

    /// The least alignment, 1.
    #[tactic(auto, unfolding(crate::specs::Alignments::is_alignment))]
    pub fn one() -> Alignment
        ensures { result ≡ 1 }
    {
        Alignment { value: 1 }
    }

    /// The greater of two.
    #[tactic(auto, using(std::proofs::lemmas::Bool::Decides::nat_tests))]
    pub fn greater(self, other: Alignment) -> Alignment
        ensures { result ≡ max self other }
    {
        if self.value() < other.value() {
            other
        } else {
            self
        }
    }

    /// The lesser of two.
    #[tactic(auto, using(std::proofs::lemmas::Bool::Decides::nat_tests))]
    pub fn lesser(self, other: Alignment) -> Alignment
        ensures { result ≡ min self other }
    {
        if other.value() < self.value() {
            other
        } else {
            self
        }
    }

    /// Its value.
    #[tactic(auto, using(crate::proofs::Powers::alignments_small))]
    pub fn value(self) -> u64
        ensures value { result ≡ self }
        ensures alignment { IsTrue (is_alignment self) }
        ensures positive { 0 < self }
        ensures at_most { self ≤ GREATEST_ALIGNMENT }
    {
        self.value
    }

    /// The least multiple at or above `value`; none where it passes 2^64 - 1 (libwild: `align_up`).
    #[tactic(auto, using(crate::proofs::Starts::rounding))]
    pub fn align_up(self, value: u64) -> Option<u64>
        ensures exact { SomeIff result (next_multiple_of value self < 2 ^ 64) (next_multiple_of value self) }
        ensures least { IfSome result (IsLeastMultiple self value) }
    {
        value.checked_next_multiple_of(self.value())
    }

    /// The greatest multiple at or below `value` (libwild: `align_down`).
    #[tactic(auto, using(crate::proofs::Starts::rounding))]
    pub fn align_down(self, value: u64) -> u64
        ensures { IsGreatestMultiple self value result }
    {
        value - value % self.value()
    }

    /// The least number at or above `value` with the remainder that `reference` has; none where it passes
    /// 2^64 - 1 (libwild: `align_modulo`).
    #[tactic(auto, using(crate::proofs::Starts::rounding))]
    pub fn align_modulo(self, reference: u64, value: u64) -> Option<u64>
        ensures exact { SomeIff result (next_congruent self reference value < 2 ^ 64) (next_congruent self reference value) }
        ensures least { IfSome result (IsLeastCongruent self reference value) }
    {
        let alignment = self.value();
        let ahead = (reference % alignment + alignment - value % alignment) % alignment;
        value.checked_add(ahead)
    }
}

/// Whether a number is an alignment: a power of two up to 65,536.
#[tactic(auto, unfolding(crate::specs::Alignments::is_alignment))]
pub fn is_valid(value: u64) -> bool
    ensures { result ≡ is_alignment value }
{
    matches!(
        value,
        1 | 2
            | 4
            | 8
            | 16
            | 32
            | 64
            | 128
            | 256
            | 512
            | 1024
            | 2048
            | 4096
            | 8192
            | 16384
            | 32768
            | 65536
    )
}

/// A law: the alignments are the powers of two from 2^0 to 2^16.
pub fn alignments_are_powers()
    ensures { AlignmentsArePowers }
{}
