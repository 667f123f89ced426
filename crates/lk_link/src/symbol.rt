//! The symbols of input files.

ghost use Rattle.std.specs.Prelude.{◌≡◌};

use crate::expression::Expression;
use crate::file::FileKind;
use crate::flags::ValueFlags;
use crate::ids::{OutputSectionId, PartId, SymbolId};
use crate::section::InputSection;
use crate::text::Text;

/// Where the location counter stands that a redirect's expression may name (libwild: `SymbolLoc`).
#[derive(Clone, Copy, Debug, PartialEq, Eq)]
pub enum SymbolLoc {
    /// Nowhere.
    None,
    /// At the start of an output section.
    SectionStart(OutputSectionId),
    /// At the end of an output section.
    SectionEnd(OutputSectionId),
    /// At the location event with this number, counted from 1 over those of the kinds `loc` and `locrel`; 0 is the base.
    Counter(u32),
}

/// What a symbol stands for (libwild: `SymbolPlacement` for internal symbols). Each kind of file has placements of its
/// own.
#[derive(Drop)]
pub enum SymbolPlacement {
    /// In an object: a place in one of its sections.
    Section {
        index: u32,
        offset: u64,
    },
    /// In an object: bytes of a part that all objects share.
    Common {
        part: PartId,
        size: u64,
    },
    /// In an object: a number.
    Absolute(u64),
    /// In an object, or in a file that is dynamic or isn't loaded: not defined here.
    Undef,
    /// In a file that is dynamic or isn't loaded: defined there.
    Dynamic,
    /// In the prelude, a synthetic file or a script: not defined.
    Undefined,
    /// In the prelude, a synthetic file or a script: not defined, and wanted all the same.
    ForceUndefined,
    /// The start of an output section.
    SectionStart(OutputSectionId),
    /// The end of an output section.
    SectionEnd(OutputSectionId),
    /// The end of an output section and of those that are secondary to it.
    SectionGroupEnd(OutputSectionId),
    /// The end of thread-local data.
    TlsEnd,
    /// The start of the first load segment.
    LoadBaseAddress,
    /// What an expression gives; `provide`: only if something wants it.
    Redirect {
        expression: Expression,
        loc: SymbolLoc,
        provide: bool,
    },
}

impl SymbolPlacement {
    ghost use Rattle.lk_link.specs.SymbolPlacements.{edge_of, is_common, is_in_discarded, is_provided, is_undefined};

    /// Whether it is bytes of a part that all objects share.
    pub fn is_common(&self) -> bool
        ensures { result ≡ is_common self.now }
    {
        matches!(self, SymbolPlacement::Common { .. })
    }

    /// Whether it is defined nowhere.
    pub fn is_undefined(&self) -> bool
        ensures { result ≡ is_undefined self.now }
    {
        matches!(
            self,
            SymbolPlacement::Undef | SymbolPlacement::Undefined | SymbolPlacement::ForceUndefined
        )
    }

    /// Whether it is in a section that is discarded, of a file with these sections.
    pub fn is_in_discarded(&self, sections: &[InputSection]) -> bool
        ensures { result ≡ is_in_discarded sections.now self.now }
    {
        match self {
            SymbolPlacement::Section { index, .. } => match sections.get(*index as usize) {
                Some(section) => section.slot.is_discarded(),
                None => false,
            },
            _ => false,
        }
    }

    /// The output section at whose start or end it is, or at the end of it and of those that are secondary to it.
    pub fn edge_of(&self) -> Option<OutputSectionId>
        ensures { result ≡ edge_of self.now }
    {
        match self {
            SymbolPlacement::SectionStart(output)
            | SymbolPlacement::SectionEnd(output)
            | SymbolPlacement::SectionGroupEnd(output) => Some(*output),
            _ => None,
        }
    }

    /// Whether it is a redirect that counts only if something wants it.
    pub fn is_provided(&self) -> bool
        ensures { result ≡ is_provided self.now }
    {
        match self {
            SymbolPlacement::Redirect { provide, .. } => *provide,
            _ => false,
        }
    }
}

/// A symbol of an input file.
#[derive(Drop)]
pub struct InputSymbol {
    pub name: Text,
    pub at: SymbolPlacement,
    /// The symbol that stands for it; none where it stands for itself.
    pub def: Option<SymbolId>,
    /// Below 64 in a checked link.
    pub flags: ValueFlags,
    pub local: bool,
    pub weak: bool,
    pub hidden: bool,
}

impl InputSymbol {
    ghost use Rattle.lk_link.specs.Symbols.{can_resolve, is_canonical, is_named, is_wanted};

    /// Whether it stands for itself, where this is its number over all files.
    pub fn is_canonical(&self, number: SymbolId) -> bool
        ensures { result ≡ is_canonical number self.now }
    {
        match self.def {
            Some(definition) => definition.as_u32() == number.as_u32(),
            None => true,
        }
    }

    /// Whether it has a name.
    pub fn is_named(&self) -> bool
        ensures { result ≡ is_named self.now }
    {
        self.name.len() != 0
    }

    /// Whether files of a kind give such a symbol a resolution.
    fn can_resolve(&self, kind: FileKind) -> bool
        ensures { result ≡ can_resolve kind self.now }
    {
        !kind.is_not_loaded() && (self.is_named() || !kind.is_internal())
    }

    /// Whether it gets a resolution with these flags, whatever becomes of segments: where it is a symbol of a file of a kind,
    /// and has this number over all files.
    pub fn is_wanted(&self, kind: FileKind, number: SymbolId, flags: ValueFlags) -> bool
        ensures { result ≡ is_wanted kind number self.now flags }
    {
        self.is_canonical(number) && flags.has_resolution() && self.can_resolve(kind)
    }
}
