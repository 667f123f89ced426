//! The rule on symbols: what a good one is.

ghost use Rattle.std.specs.Prelude.{◌≡◌};
ghost use Rattle.lk_link.specs.SymbolRules.{has_definition, is_definition, is_foreign_placement, is_good_symbol, is_internal_placement, is_loc_there, is_object_placement, is_offset_in, is_placement_in, is_placement_there, location_count};

use crate::parts::is_free_part;
use lk_link::file::{FileKind, InputFile};
use lk_link::groups::InputGroups;
use lk_link::ids::{OutputSectionId, SymbolId};
use lk_link::limits::GIVEN_FLAG_SETS;
use lk_link::link::LinkInput;
use lk_link::plan::Plan;
use lk_link::section::InputSection;
use lk_link::symbol::{InputSymbol, SymbolLoc, SymbolPlacement};

/// Whether what stands for a symbol stands for itself, its flags are below 64, files of its kind have such placements,
/// and what its placement names is there, in a plan with so many events that move the location counter.
pub fn is_good_symbol(
    link: &LinkInput,
    locations: usize,
    file: &InputFile,
    symbol: &InputSymbol,
) -> bool
    requires { locations ≡ location_count link.now.plan }
    ensures { result ≡ is_good_symbol link.now file.now symbol.now }
{
    has_definition(&link.groups, symbol.def)
        && symbol.flags.0 < GIVEN_FLAG_SETS
        && is_placement_in(file.kind, &symbol.at)
        && is_placement_there(&link.plan, locations, file.sections.as_slice(), &symbol.at)
}

/// Whether what stands for a symbol, if anything else does, stands for itself.
fn has_definition(groups: &InputGroups, definition: Option<SymbolId>) -> bool
    ensures { result ≡ has_definition groups.now definition }
{
    match definition {
        None => true,
        Some(symbol) => is_definition(groups, symbol),
    }
}

/// Whether it is a symbol that stands for itself.
fn is_definition(groups: &InputGroups, symbol: SymbolId) -> bool
    ensures { result ≡ is_definition groups.now symbol }
{
    match groups.definition(symbol) {
        None => false,
        Some(definition) => definition.as_u32() == symbol.as_u32(),
    }
}

/// Whether files of this kind place symbols so.
fn is_placement_in(kind: FileKind, placement: &SymbolPlacement) -> bool
    ensures { result ≡ is_placement_in kind placement.now }
{
    match kind {
        FileKind::Object => is_object_placement(placement),
        FileKind::Dynamic | FileKind::NotLoaded => is_foreign_placement(placement),
        FileKind::Prelude | FileKind::SyntheticSymbols | FileKind::LinkerScript => {
            is_internal_placement(placement)
        }
    }
}

/// Whether objects place symbols so.
fn is_object_placement(placement: &SymbolPlacement) -> bool
    ensures { result ≡ is_object_placement placement.now }
{
    matches!(
        placement,
        SymbolPlacement::Section { .. }
            | SymbolPlacement::Common { .. }
            | SymbolPlacement::Absolute(_)
            | SymbolPlacement::Undef
    )
}

/// Whether dynamic files, and files that aren't loaded, place symbols so.
fn is_foreign_placement(placement: &SymbolPlacement) -> bool
    ensures { result ≡ is_foreign_placement placement.now }
{
    matches!(placement, SymbolPlacement::Dynamic | SymbolPlacement::Undef)
}

/// Whether the linker's own files, and scripts, place symbols so.
fn is_internal_placement(placement: &SymbolPlacement) -> bool
    ensures { result ≡ is_internal_placement placement.now }
{
    matches!(
        placement,
        SymbolPlacement::Undefined
            | SymbolPlacement::ForceUndefined
            | SymbolPlacement::SectionStart(_)
            | SymbolPlacement::SectionEnd(_)
            | SymbolPlacement::SectionGroupEnd(_)
            | SymbolPlacement::TlsEnd
            | SymbolPlacement::LoadBaseAddress
            | SymbolPlacement::Redirect { .. }
    )
}

/// Whether what a placement names is there, in a file with these sections.
fn is_placement_there(
    plan: &Plan,
    locations: usize,
    sections: &[InputSection],
    placement: &SymbolPlacement,
) -> bool
    requires { locations ≡ location_count plan.now }
    ensures { result ≡ is_placement_there plan.now sections.now placement.now }
{
    match placement {
        SymbolPlacement::Section { index, offset } => is_offset_in(sections, *index, *offset),
        SymbolPlacement::Common { part, .. } => is_free_part(plan, *part),
        SymbolPlacement::SectionStart(section)
        | SymbolPlacement::SectionEnd(section)
        | SymbolPlacement::SectionGroupEnd(section) => section.as_usize() < plan.sections.len(),
        SymbolPlacement::Redirect { loc, .. } => is_loc_there(plan, locations, *loc),
        _ => true,
    }
}

/// Whether there is such a section, and such an offset in it; of a merge section any offset is good.
fn is_offset_in(sections: &[InputSection], index: u32, offset: u64) -> bool
    ensures { result ≡ is_offset_in sections.now index offset }
{
    match sections.get(index as usize) {
        None => false,
        Some(section) => section.slot.is_merge() || offset <= section.size,
    }
}

/// Whether there is such a place for the location counter.
fn is_loc_there(plan: &Plan, locations: usize, loc: SymbolLoc) -> bool
    requires { locations ≡ location_count plan.now }
    ensures { result ≡ is_loc_there plan.now loc }
{
    match loc {
        SymbolLoc::None => true,
        SymbolLoc::SectionStart(section) | SymbolLoc::SectionEnd(section) => {
            section.as_usize() < plan.sections.len()
        }
        SymbolLoc::Counter(number) => number as usize <= locations,
    }
}
