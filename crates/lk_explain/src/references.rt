//! What a section refers to by its relocations.

ghost use Rattle.std.specs.Prelude.{◌≡◌, ◌+◌, ◌<◌, ◌^◌, [], MatchOption};
ghost use Rattle.lk_link.specs.WellFormed.{IsWellFormed};
ghost use Rattle.lk_reach.specs.Units.{asked_references, reference};
ghost use Rattle.lk_explain.specs.Sharing.{AreReferences};

use lk_link::relocation::resolution_flags;
use lk_link::{FileId, InputSymbol, LinkInput, Relocation};
use lk_reach::{Ask, local_definition};

/// The relocations of a section that are followed.
#[derive(Clone, Copy)]
pub(crate) struct References<'a> {
    /// The number of the first symbol of the section's file.
    pub(crate) first: u32,
    /// The symbols of the file.
    pub(crate) symbols: &'a [InputSymbol],
    pub(crate) relocations: &'a [Relocation],
}

/// The relocations of a section that are followed, where there is such a section and it is loaded for what it holds.
pub(crate) fn references_of<'a>(
    link: &'a LinkInput,
    id: FileId,
    index: u32,
) -> Option<References<'a>>
    requires { IsWellFormed link.now }
    ensures { MatchOption result (asked_references link.now id index ≡ []) (AreReferences link.now id index) }
{
    let file = link.groups.file(id)?;
    let section = file.sections.get(index as usize)?;
    let symbols = link.groups.symbol_id_range(id)?;
    if !section.slot.is_regular() {
        return None;
    }
    Some(References {
        first: symbols.start().as_u32(),
        symbols: file.symbols.as_slice(),
        relocations: section.relocs.as_slice(),
    })
}

/// What a relocation refers to: what stands for its symbol, unless its kind wants nothing.
pub(crate) fn reference(first: u32, symbols: &[InputSymbol], relocation: Relocation) -> Option<Ask>
    requires { first + relocation.symbol < 2 ^ 32 }
    ensures { result ≡ reference first symbols.now relocation }
{
    let flags = resolution_flags(relocation.kind);
    if flags.0 == 0 {
        return None;
    }
    let symbol = local_definition(first, symbols, relocation.symbol);
    Some(Ask::Reference(symbol, flags))
}
