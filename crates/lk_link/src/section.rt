//! Sections of object files: what the description says of them, and the bytes that they take.

ghost use Rattle.std.specs.Prelude.{◌≡◌, ◌-◌, ◌^◌, ◌≤◌, ◌<◌, IsTrue, SomeIff};
ghost use Rattle.lk_link.specs.Alignments.{is_alignment};

use crate::ids::PartId;
use crate::list::List;
use crate::plan::PlanPart;
use crate::relocation::{RelaxCandidate, Relocation};
use crate::text::Text;
use std::marker::Model;

/// What the description says of an input section: whether it is kept.
#[derive(Clone, Copy, Debug, PartialEq, Eq)]
pub enum InputSlot {
    /// Left out, whatever refers to it.
    Discard,
    /// Kept if something refers to it.
    Unloaded,
    /// Kept.
    MustLoad,
    /// Debug data, kept if something refers to it.
    DebugInfo,
    /// Debug data, kept.
    MustLoadDebugInfo,
    /// Strings or constants, of which equal ones are kept once.
    Merge,
}

impl InputSlot {
    ghost use Rattle.lk_link.specs.InputSlots.{is_discarded, is_merge, is_regular, is_must, is_debug, can_be_kept};

    /// Whether it is left out, whatever refers to it.
    pub fn is_discarded(self) -> bool
        ensures { result ≡ is_discarded self }
    {
        matches!(self, InputSlot::Discard)
    }

    /// Whether its equal strings or constants are kept once.
    pub fn is_merge(self) -> bool
        ensures { result ≡ is_merge self }
    {
        matches!(self, InputSlot::Merge)
    }

    /// Whether it is loaded for what it holds, and neither debug data nor merged.
    pub fn is_regular(self) -> bool
        ensures { result ≡ is_regular self }
    {
        matches!(self, InputSlot::Unloaded | InputSlot::MustLoad)
    }

    /// Whether it is loaded for what it holds without being asked for.
    pub fn is_must(self) -> bool
        ensures { result ≡ is_must self }
    {
        matches!(self, InputSlot::MustLoad)
    }

    /// Whether it is debug data.
    pub fn is_debug(self) -> bool
        ensures { result ≡ is_debug self }
    {
        matches!(self, InputSlot::DebugInfo | InputSlot::MustLoadDebugInfo)
    }

    /// Whether it can be kept as a whole: it is neither left out nor merged.
    pub fn can_be_kept(self) -> bool
        ensures { result ≡ can_be_kept self }
    {
        !matches!(self, InputSlot::Discard | InputSlot::Merge)
    }
}

/// A section of an object file.
#[derive(Drop)]
pub struct InputSection {
    pub name: Text,
    pub slot: InputSlot,
    /// The part that it goes to; one of the plan's in a checked link, unless the section is discarded.
    pub part: PartId,
    /// Bytes; of a merge section, how many it holds.
    pub size: u64,
    /// Its data; those that a reader makes are empty where none are given. In a checked link they are as many bytes as its size says
    /// where they are `given` and the section isn't merged.
    pub bytes: List<u8>,
    /// Whether data are given, empty ones too.
    pub given: bool,
    /// Whether a merge section holds strings that end in a zero byte, and not one constant.
    pub strings: bool,
    /// Whether it is put in order by its name.
    pub sorted: bool,
    /// A set of `attributes`: written, code, or both in a checked link.
    pub attrs: u32,
    /// The section group that it is in, among the sections of its file.
    pub group: Option<u32>,
    pub relocs: List<Relocation>,
    pub relax: List<RelaxCandidate>,
}

/// A section that is kept (libwild: `Section`).
#[derive(Clone, Copy, Debug, PartialEq, Eq)]
pub struct Section {
    /// Bytes in the output.
    pub size: u64,
}

impl Section {
    ghost use Rattle.lk_link.specs.Sizes.{capacity};

    /// The bytes that it takes in a part: its size where the part is packed, and otherwise the size rounded up to the
    /// alignment; none where that passes 2^64 - 1 (libwild: `Section::capacity`).
    #[tactic(auto, using(crate::proofs::Powers::alignments_small))]
    pub fn capacity(self, part: &PlanPart) -> Option<u64>
        requires { IsTrue (is_alignment part.now.alignment) }
        ensures { SomeIff result (capacity part.now self.size < 2 ^ 64) (capacity part.now self.size) }
    {
        if part.packed {
            Some(self.size)
        } else {
            self.size.checked_next_multiple_of(part.alignment)
        }
    }

    /// The bytes that it takes in a part, also past 2^64 - 1.
    #[tactic(auto, using(crate::proofs::Rounding::rounding))]
    pub fn exact_capacity(self, part: &PlanPart) -> u128
        requires { IsTrue (is_alignment part.now.alignment) }
        ensures { result ≡ capacity part.now self.size }
    {
        let rest = self.size % part.alignment;
        let padding = if part.packed || rest == 0 {
            0
        } else {
            part.alignment - rest
        };
        u128::from(self.size) + u128::from(padding)
    }

    /// Its size without the padding inside, in bytes (libwild: `Section::content_size`).
    pub fn content_size(self, padding: u64) -> u64
        requires { padding ≤ self.size }
        ensures { result ≡ self.size - padding }
    {
        self.size - padding
    }
}

/// A section that isn't kept yet (libwild: `UnloadedSection`).
#[derive(Clone, Copy, Debug, PartialEq, Eq)]
pub struct UnloadedSection {
    pub needs_sorting: bool,
}

/// What became of an input section (libwild: `SectionSlot`).
#[derive(Clone, Copy, Debug, PartialEq, Eq)]
pub enum SectionSlot {
    /// Left out.
    Discard,
    Unloaded(UnloadedSection),
    /// To be kept, and not looked at yet.
    MustLoad(UnloadedSection),
    UnloadedDebugInfo { must_load: bool },
    LoadedDebugInfo(Section),
    Loaded(Section),
    /// Kept, in the order of names.
    Sorted(Section),
    MergeStrings,
    /// Kept, as an output section of its own in partial output.
    PartialLinkSingleton(Section),
}

impl SectionSlot {
    ghost use Rattle.lk_link.specs.SectionSlots.{is_loaded};

    /// Whether its bytes stand in the output (libwild: `SectionSlot::is_loaded`).
    pub fn is_loaded(self) -> bool
        ensures { result ≡ is_loaded self }
    {
        match self {
            SectionSlot::Discard
            | SectionSlot::Unloaded(_)
            | SectionSlot::MustLoad(_)
            | SectionSlot::UnloadedDebugInfo { .. } => false,
            SectionSlot::LoadedDebugInfo(_)
            | SectionSlot::Loaded(_)
            | SectionSlot::Sorted(_)
            | SectionSlot::MergeStrings
            | SectionSlot::PartialLinkSingleton(_) => true,
        }
    }
}

/// A section of an object that is looked at for what it refers to, by its index (libwild: `SectionGcUnit`).
#[derive(Clone, Copy, Debug, PartialEq, Eq)]
pub struct SectionGcUnit {
    index: u32,
}

impl Model for SectionGcUnit {
    ghost use Rattle.std.specs.Prelude.{ℕ};

    ghost Value = { ℕ };

    ghost view = { λ a. a.index };

    ghost inverse = { λ n. record { index = n } };
}

impl SectionGcUnit {
    /// The section with this index in its file.
    pub fn new(section_index: u32) -> SectionGcUnit
        ensures { result ≡ section_index }
    {
        SectionGcUnit {
            index: section_index,
        }
    }

    /// Its index in the file.
    pub fn section_index(self) -> u32
        ensures { result ≡ self }
    {
        self.index
    }
}
