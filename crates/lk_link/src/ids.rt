//! The numbers by which the description names its things.

ghost use Rattle.std.specs.Prelude.{◌≡◌, ◌==◌, ◌+◌, ◌-◌, ◌^◌, ◌<◌, ◌≤◌, ◌↔◌, IsTrue};

use std::fmt;
use std::marker::Model;

/// A file: the index of its group, and its own index inside the group. Compares by group, then by file.
#[derive(Clone, Copy, Debug, PartialEq, Eq, PartialOrd, Ord, Hash)]
pub struct FileId {
    pub group: u32,
    pub file: u32,
}

/// `G.F`.
impl fmt::Display for FileId {
    ghost use Rattle.std.specs.Prelude.{Some, codes, ◌++◌};
    ghost use Rattle.std.specs.Fmt.{decimal};

    ghost output = { λ id. Some (decimal id.group ++ codes "." ++ decimal id.file) };

    fn fmt<W: fmt::Write>(&self, f: &mut fmt::Formatter<W>) -> fmt::Result {
        let group = self.group;
        let file = self.file;
        write!(f, "{group}.{file}")
    }
}

/// A part of an output section, numbered over all sections in order.
#[derive(Clone, Copy, Debug, PartialEq, Eq, PartialOrd, Ord, Hash)]
pub struct PartId {
    number: u32,
}

impl Model for PartId {
    ghost use Rattle.std.specs.Prelude.{ℕ};

    ghost Value = { ℕ };

    ghost view = { λ a. a.number };

    ghost inverse = { λ n. record { number = n } };
}

impl PartId {
    /// The part with this number.
    pub fn from_u32(number: u32) -> PartId
        ensures { result ≡ number }
    {
        PartId { number }
    }

    /// Its number.
    pub fn as_u32(self) -> u32
        ensures { result ≡ self }
    {
        self.number
    }

    /// Its number as an index.
    pub fn as_usize(self) -> usize
        ensures { result ≡ self }
    {
        self.number as usize
    }
}

/// An output section of the plan.
#[derive(Clone, Copy, Debug, PartialEq, Eq, PartialOrd, Ord, Hash)]
pub struct OutputSectionId {
    number: u32,
}

impl Model for OutputSectionId {
    ghost use Rattle.std.specs.Prelude.{ℕ};

    ghost Value = { ℕ };

    ghost view = { λ a. a.number };

    ghost inverse = { λ n. record { number = n } };
}

impl OutputSectionId {
    /// The section with this number.
    pub fn from_u32(number: u32) -> OutputSectionId
        ensures { result ≡ number }
    {
        OutputSectionId { number }
    }

    /// Its number.
    pub fn as_u32(self) -> u32
        ensures { result ≡ self }
    {
        self.number
    }

    /// Its number as an index.
    pub fn as_usize(self) -> usize
        ensures { result ≡ self }
    {
        self.number as usize
    }
}

/// A segment of the plan (libwild: `ProgramSegmentId`).
#[derive(Clone, Copy, Debug, PartialEq, Eq, PartialOrd, Ord, Hash)]
pub struct SegmentId {
    number: u32,
}

impl Model for SegmentId {
    ghost use Rattle.std.specs.Prelude.{ℕ};

    ghost Value = { ℕ };

    ghost view = { λ a. a.number };

    ghost inverse = { λ n. record { number = n } };
}

impl SegmentId {
    /// The segment with this number.
    pub fn from_u32(number: u32) -> SegmentId
        ensures { result ≡ number }
    {
        SegmentId { number }
    }

    /// Its number.
    pub fn as_u32(self) -> u32
        ensures { result ≡ self }
    {
        self.number
    }

    /// Its number as an index.
    pub fn as_usize(self) -> usize
        ensures { result ≡ self }
    {
        self.number as usize
    }
}

/// A memory region of the plan.
#[derive(Clone, Copy, Debug, PartialEq, Eq, PartialOrd, Ord, Hash)]
pub struct RegionId {
    number: u32,
}

impl Model for RegionId {
    ghost use Rattle.std.specs.Prelude.{ℕ};

    ghost Value = { ℕ };

    ghost view = { λ a. a.number };

    ghost inverse = { λ n. record { number = n } };
}

impl RegionId {
    /// The region with this number.
    pub fn from_u32(number: u32) -> RegionId
        ensures { result ≡ number }
    {
        RegionId { number }
    }

    /// Its number.
    pub fn as_u32(self) -> u32
        ensures { result ≡ self }
    {
        self.number
    }

    /// Its number as an index.
    pub fn as_usize(self) -> usize
        ensures { result ≡ self }
    {
        self.number as usize
    }
}

/// A symbol, numbered over all files in order (libwild: `SymbolId`).
#[derive(Clone, Copy, Debug, PartialEq, Eq, PartialOrd, Ord, Hash)]
pub struct SymbolId {
    number: u32,
}

impl Model for SymbolId {
    ghost use Rattle.std.specs.Prelude.{ℕ};

    ghost Value = { ℕ };

    ghost view = { λ a. a.number };

    ghost inverse = { λ n. record { number = n } };
}

impl SymbolId {
    /// The symbol with this number.
    pub fn from_u32(number: u32) -> SymbolId
        ensures { result ≡ number }
    {
        SymbolId { number }
    }

    /// Its number.
    pub fn as_u32(self) -> u32
        ensures { result ≡ self }
    {
        self.number
    }

    /// Its number as an index.
    pub fn as_usize(self) -> usize
        ensures { result ≡ self }
    {
        self.number as usize
    }
}

/// Numbers of symbols that follow each other, as those of one file (libwild: `SymbolIdRange`).
#[derive(Clone, Copy, Debug, PartialEq, Eq)]
pub struct SymbolIdRange {
    /// The first number; where there are none, the one that they would begin with.
    pub start: u32,
    /// How many numbers there are.
    pub count: u32,
    ghost numbered: { start + count ≤ 2 ^ 32 },
}

impl SymbolIdRange {
    ghost use Rattle.lk_link.specs.SymbolRanges.{IsWithin};

    /// So many numbers from `start` on.
    pub fn new(start: SymbolId, count: u32) -> SymbolIdRange
        requires { start + count ≤ 2 ^ 32 }
        ensures first { result.start ≡ start }
        ensures length { result.count ≡ count }
    {
        SymbolIdRange {
            start: start.as_u32(),
            count,
        }
    }

    /// The first number; where there are none, the one that they would begin with.
    pub fn start(self) -> SymbolId
        ensures { result ≡ self.start }
    {
        SymbolId::from_u32(self.start)
    }

    /// How many numbers there are.
    pub fn len(self) -> usize
        ensures { result ≡ self.count }
    {
        self.count as usize
    }

    /// Whether there are none.
    pub fn is_empty(self) -> bool
        ensures { result ≡ (self.count == 0) }
    {
        self.count == 0
    }

    /// Whether this is one of the numbers.
    pub fn contains(self, id: SymbolId) -> bool
        ensures { IsTrue result ↔ IsWithin self id }
    {
        let number = id.as_u32();
        self.start <= number && number - self.start < self.count
    }

    /// The number at a place of the range (libwild: `offset_to_id`).
    pub fn offset_to_id(self, offset: usize) -> SymbolId
        requires { offset < self.count }
        ensures { result ≡ self.start + offset }
    {
        SymbolId::from_u32(self.start + offset as u32)
    }

    /// The place of a number in the range (libwild: `id_to_offset`).
    pub fn id_to_offset(self, id: SymbolId) -> usize
        requires { IsWithin self id }
        ensures place { self.start + result ≡ id }
        ensures within { result < self.count }
    {
        (id.as_u32() - self.start) as usize
    }
}
