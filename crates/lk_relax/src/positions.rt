//! Where input sections and symbols stand in parts, from the parts' starts, where some bytes of the sections are deleted.
//!
//! A section's position is the address that it would have if all parts started at 0. A symbol stands as far behind its section's
//! position as its offset goes by what is deleted.

ghost use Rattle.std.specs.Prelude.{◌≡◌, ◌+◌, ◌<◌, ◌≤◌, ◌^◌, ◌++◌, ℕ, All, IfOk, IsSome, OnOk, map, slice_get, unwrap_or};
ghost use Rattle.std.specs.List.{enumerate_from};
ghost use Rattle.std.specs.Option.{option_copied};
ghost use Rattle.lk_live.specs.Reach.{AreLive};
ghost use Rattle.lk_link.specs.Files.{file_in};
ghost use Rattle.lk_link.specs.Inputs.{all_inputs, first_input};
ghost use Rattle.lk_link.specs.Walks.{file_of};
ghost use Rattle.lk_link.specs.WellFormed.{IsWellFormed};
ghost use Rattle.lk_expressions.specs.Surroundings.{flat};
ghost use Rattle.lk_sizes.specs.Owners.{AreThunkOwners, Filling, in_output, own_sizes};
ghost use Rattle.lk_sizes.specs.PartOwners.{part_sizes};
ghost use Rattle.lk_sizes.specs.Sizing.{AreFilled};
ghost use Rattle.lk_deltas.specs.LinkDeletions.{sizes_after};
ghost use Rattle.lk_relax.specs.Positions.{file_positions, section_positions, symbol_positions};
ghost use Rattle.lk_relax.specs.PositionWords.{HasRoom, HaveRoom, section_position_in, symbol_position_in};

use lk_deltas::{RelaxDeltaMap, deleted_in, map_of, opt_input_to_output};
use lk_expressions::{SymbolPosition, SymbolPositions};
use lk_link::list::List;
use lk_link::marks::is_marked;
use lk_link::{FileId, FileRef, InputSection, InputSymbol, LinkInput, PartId, SymbolPlacement};
use lk_live::Live;
use lk_sizes::{PartOwners, owner_addresses, part_sizes};
use std::alloc::{AllocError, Global};

/// The position of each input section by its number: its part, and the bytes from the part's start; none unless it is live, no debug
/// data, and not sorted. With them the positions of the symbols in these. What sizing found is for the sizes that are left behind these
/// deletions. Looks at each input section and each symbol once, and takes at most 24 bytes for each (libwild:
/// `compute_input_section_positions`).
pub fn compute_input_section_positions(
    alloc: Global,
    link: &LinkInput,
    live: &Live,
    owners: &PartOwners,
    deltas: &[RelaxDeltaMap],
) -> Result<(Vec<Option<(PartId, u64)>>, SymbolPositions), AllocError>
    requires good { IsWellFormed link.now }
    requires live { AreLive link.now live.now }
    requires thunks { AreThunkOwners link.now owners.now.thunks }
    requires filled { (filling : Filling) × AreFilled (in_output link.now live.now filling) owners.now }
    requires sizes { unwrap_or owners.now.sizes (own_sizes link.now) ≡ sizes_after link.now.groups deltas.now }
    ensures sections { (filling : Filling) → AreFilled (in_output link.now live.now filling) owners.now
        → IfOk result (λ told. told.0.items ≡ section_positions (in_output link.now live.now filling)) }
    ensures symbols { IfOk result (λ told. told.1 ≡ symbol_positions link.now.groups deltas.now told.0.items) }
{
    let sizes = part_sizes(alloc, owners)?;
    positions_by(alloc, link, live, owners, deltas, &sizes)
}

/// The same by the sizes of the parts.
fn positions_by(
    alloc: Global,
    link: &LinkInput,
    live: &Live,
    owners: &PartOwners,
    deltas: &[RelaxDeltaMap],
    sizes: &[u64],
) -> Result<(Vec<Option<(PartId, u64)>>, SymbolPositions), AllocError>
    requires good { IsWellFormed link.now }
    requires live { AreLive link.now live.now }
    requires thunks { AreThunkOwners link.now owners.now.thunks }
    requires filled { (filling : Filling) × AreFilled (in_output link.now live.now filling) owners.now × (sizes.now ≡ part_sizes (in_output link.now live.now filling)) }
    requires left { unwrap_or owners.now.sizes (own_sizes link.now) ≡ sizes_after link.now.groups deltas.now }
    ensures sections { (filling : Filling) → AreFilled (in_output link.now live.now filling) owners.now
        → IfOk result (λ told. told.0.items ≡ section_positions (in_output link.now live.now filling)) }
    ensures symbols { IfOk result (λ told. told.1 ≡ symbol_positions link.now.groups deltas.now told.0.items) }
{
    let starts = no_starts(alloc, sizes)?;
    let found = owner_addresses(alloc, link, live, owners, &starts)?;
    let sections = section_positions(alloc, link, live, found.sections.as_slice())?;
    let symbols = symbol_positions(alloc, link, deltas, &sections)?;
    Ok((sections, SymbolPositions::new(List::from_vec(symbols))))
}

/// A start of 0 for each part, by their sizes.
fn no_starts(alloc: Global, sizes: &[u64]) -> Result<Vec<u64>, AllocError>
    ensures { IfOk result (λ starts. starts.items ≡ map (λ _. 0) sizes.now) }
{
    let mut starts = Vec::with_capacity(alloc, sizes.len())?;
    for _size in sizes {
        starts.push(0)?;
    }
    Ok(starts)
}

/// The positions of all input sections, by their places in parts.
fn section_positions(
    alloc: Global,
    link: &LinkInput,
    live: &Live,
    places: &[u64],
) -> Result<Vec<Option<(PartId, u64)>>, AllocError>
    requires { IsWellFormed link.now }
    ensures { IfOk result (λ positions. positions.items
        ≡ map (λ q. section_position_in live.now.marks places.now q.0 q.1.section) (enumerate_from 0 (all_inputs link.now.groups))) }
{
    let marks = live.marks.as_slice();
    let mut positions = Vec::with_capacity(alloc, places.len())?;
    for input in link.groups.inputs() {
        let number = positions.len();
        positions.push(section_position(marks, places, number, input.section))?;
    }
    Ok(positions)
}

/// The position of a section with this number.
fn section_position(
    marks: &[bool],
    places: &[u64],
    number: usize,
    section: &InputSection,
) -> Option<(PartId, u64)>
    ensures { result ≡ section_position_in marks.now places.now number section.now }
{
    if is_marked(marks, number) && section.slot.is_regular() && !section.sorted {
        Some((section.part, places.get(number).copied().unwrap_or(0)))
    } else {
        None
    }
}

/// The positions of all symbols, by those of the sections.
fn symbol_positions(
    alloc: Global,
    link: &LinkInput,
    deltas: &[RelaxDeltaMap],
    sections: &[Option<(PartId, u64)>],
) -> Result<Vec<Option<SymbolPosition>>, AllocError>
    requires good { IsWellFormed link.now }
    requires room { HaveRoom link.now.groups deltas.now sections.now }
    ensures { IfOk result (λ positions. positions.items ≡ symbol_positions link.now.groups deltas.now sections.now) }
{
    let count = link.groups.symbol_count() as usize;
    let mut positions = Vec::with_capacity(alloc, count)?;
    for file in link.groups.files() {
        push_file_positions(&mut positions, link, deltas, sections, file)?;
    }
    Ok(positions)
}

/// Adds the positions of a file's symbols.
fn push_file_positions(
    positions: &mut Vec<Option<SymbolPosition>>,
    link: &LinkInput,
    deltas: &[RelaxDeltaMap],
    sections: &[Option<(PartId, u64)>],
    file: FileRef<'_>,
) -> Result<(), AllocError>
    requires good { IsWellFormed link.now }
    requires there { file_in link.now.groups file.id ≡ Some file.file.now }
    requires room { HaveRoom link.now.groups deltas.now sections.now }
    ensures { OnOk result (positions.new.items
        ≡ positions.old.items ++ file_positions link.now.groups deltas.now sections.now (file_of file.entry)) }
{
    let first = first_number(link, file.id);
    let entries = map_of(link, deltas, file.id);
    let symbols = file.file.symbols.as_slice();
    push_positions(positions, entries, sections, first, symbols)
}

/// The number of a file's first section over all files.
pub(crate) fn first_number(link: &LinkInput, file: FileId) -> usize
    requires good { IsWellFormed link.now }
    requires there { IsSome (file_in link.now.groups file) }
    ensures number { result ≡ first_input link.now.groups file }
    ensures few { result < 2 ^ 32 }
{
    match link.groups.input_start(file) {
        Some(first) => first,
        None => 0,
    }
}

/// Adds the positions of some symbols of a file of which this is deleted. `first` is the number of the file's first section.
fn push_positions(
    positions: &mut Vec<Option<SymbolPosition>>,
    entries: Option<&RelaxDeltaMap>,
    sections: &[Option<(PartId, u64)>],
    first: usize,
    symbols: &[InputSymbol],
) -> Result<(), AllocError>
    requires few { first < 2 ^ 32 }
    requires room { All (λ x. HasRoom (option_copied entries) sections.now first x.at) symbols.now }
    ensures { OnOk result (positions.new.items
        ≡ positions.old.items ++ map (λ x. symbol_position_in (option_copied entries.entry) sections.now first x.at) symbols.now) }
{
    for symbol in symbols {
        positions.push(symbol_position(entries, sections, first, &symbol.at))?;
    }
    Ok(())
}

/// The position of a symbol with this placement.
fn symbol_position(
    entries: Option<&RelaxDeltaMap>,
    sections: &[Option<(PartId, u64)>],
    first: usize,
    placement: &SymbolPlacement,
) -> Option<SymbolPosition>
    requires few { first < 2 ^ 32 }
    requires room { HasRoom (option_copied entries) sections.now first placement.now }
    ensures { result ≡ symbol_position_in (option_copied entries.entry) sections.now first placement.now }
{
    match placement {
        SymbolPlacement::Section { index, offset } => {
            let (part, start) = position_at(sections, first + *index as usize)?;
            let moved = opt_input_to_output(deleted_in(entries, *index), *offset);
            Some(SymbolPosition {
                part,
                offset: start + moved,
            })
        }
        _ => None,
    }
}

/// The position with this number, if there is one.
pub(crate) fn position_at(
    sections: &[Option<(PartId, u64)>],
    number: usize,
) -> Option<(PartId, u64)>
    ensures { result ≡ flat (slice_get sections.now number) }
{
    match sections.get(number) {
        Some(position) => *position,
        None => None,
    }
}
