//! The addresses of what symbols refer to in merged sections.

ghost use Rattle.std.specs.Prelude.{◌≡◌, ℕ, ℤ, Some, length, nat_lt, option_map};
ghost use Rattle.std.specs.Option.{option_map_or};
ghost use Rattle.lk_link.specs.Files.{file_in};
ghost use Rattle.lk_link.specs.Walks.{file_of};
ghost use Rattle.lk_link.specs.WellFormed.{IsWellFormed};
ghost use Rattle.lk_merge.specs.Addresses.{AreStartsOf, image_start};
ghost use Rattle.lk_merge.specs.LinkInputs.{link_inputs};
ghost use Rattle.lk_merge.specs.OffsetsOutside.{chooses_outside};
ghost use Rattle.lk_merge.specs.OutputAddresses.{address_in, chosen_offset, merge_place, merged_address, place_address, reference_address, symbol_place};
ghost use Rattle.lk_merge.specs.OutputAddressTables.{IsMergePlace, lent_place};
ghost use Rattle.lk_merge.specs.declared.output_address.SymbolPlace.{SymbolPlace};

use crate::addresses::MergedStringStartAddresses;
use crate::section::MergedStringsSection;
use lk_link::part_sections::section_of_part;
use lk_link::{FileRef, InputSection, InputSymbol, LinkInput, SymbolId, SymbolPlacement};

/// The offset that a reference chooses is at the end of its section's data or past it.
#[derive(Clone, Copy, Debug, PartialEq, Eq)]
pub struct OffsetPastEnd;

/// What a symbol that is placed in a merged section names.
#[derive(Clone, Copy)]
pub(crate) struct SymbolPlace<'link> {
    /// The number of the section over all input sections.
    number: u32,
    section: &'link InputSection,
    /// The offset there, in bytes.
    offset: u64,
    /// Whether the symbol has a name.
    pub(crate) is_named: bool,
}

impl SymbolPlace<'_> {
    /// The offset that a reference chooses, with an addend: of a named symbol its own; of an unnamed one that, moved by the
    /// addend. The sum wraps.
    fn chosen_offset(self, addend: i64) -> u64
        ensures { result ≡ chosen_offset (lent_place self.entry) addend }
    {
        if self.is_named {
            self.offset
        } else {
            self.offset.wrapping_add(addend.cast_unsigned())
        }
    }

    /// Whether a reference, with an addend, chooses an offset outside the section's data.
    pub(crate) fn chooses_outside(self, addend: i64) -> bool
        ensures { result ≡ chooses_outside addend (lent_place self.entry) }
    {
        self.chosen_offset(addend) >= self.section.bytes.len() as u64
    }
}

/// The address that a reference to a symbol, with an addend, has in a merged section; none where the symbol isn't placed in
/// one. A named symbol chooses the offset of its placement, and the addend is added to the address; an unnamed one chooses
/// that offset and the addend together, or with `zero_unnamed` is 0. Sums wrap. Takes logarithmic time (libwild:
/// `get_merged_string_output_address`).
pub fn get_merged_string_output_address(
    link: &LinkInput,
    symbol: SymbolId,
    addend: i64,
    merged: &[MergedStringsSection<'_>],
    starts: &MergedStringStartAddresses,
    zero_unnamed: bool,
) -> Result<Option<u64>, OffsetPastEnd>
    requires well_formed { IsWellFormed link.now }
    requires merged { merged.now ≡ (link_inputs link.now).outputs }
    requires starts { AreStartsOf merged.now starts.now }
    ensures { result ≡ merged_address link.now (image_start starts.now) symbol addend zero_unnamed }
{
    match symbol_place(link, symbol) {
        Some(place) => reference_address(link, place, addend, merged, starts, zero_unnamed),
        None => Ok(None),
    }
}

/// The same for a symbol of a file, without a look-up of it. Takes logarithmic time.
pub fn get_merged_string_output_address_in(
    link: &LinkInput,
    file: FileRef<'_>,
    symbol: &InputSymbol,
    addend: i64,
    merged: &[MergedStringsSection<'_>],
    starts: &MergedStringStartAddresses,
    zero_unnamed: bool,
) -> Result<Option<u64>, OffsetPastEnd>
    requires well_formed { IsWellFormed link.now }
    requires there { file_in link.now.groups file.id ≡ Some file.file.now }
    requires merged { merged.now ≡ (link_inputs link.now).outputs }
    requires starts { AreStartsOf merged.now starts.now }
    ensures { result ≡ place_address link.now (image_start starts.now) addend zero_unnamed (merge_place link.now.groups (file_of file.entry, symbol.now)) }
{
    match place_in(link, file, symbol) {
        Some(place) => reference_address(link, place, addend, merged, starts, zero_unnamed),
        None => Ok(None),
    }
}

/// The address of a reference, with an addend, to what a symbol names.
fn reference_address(
    link: &LinkInput,
    place: SymbolPlace<'_>,
    addend: i64,
    merged: &[MergedStringsSection<'_>],
    starts: &MergedStringStartAddresses,
    zero_unnamed: bool,
) -> Result<Option<u64>, OffsetPastEnd>
    requires well_formed { IsWellFormed link.now }
    requires merged { merged.now ≡ (link_inputs link.now).outputs }
    requires starts { AreStartsOf merged.now starts.now }
    requires place { IsMergePlace link.now (lent_place place) }
    ensures { result ≡ reference_address link.now (image_start starts.now) addend zero_unnamed (lent_place place.entry) }
{
    let offset = place.chosen_offset(addend);
    if place.is_named {
        let address = address_in(link, merged, starts, place, offset).ok_or(OffsetPastEnd)?;
        return Ok(Some(address.wrapping_add(addend.cast_unsigned())));
    }
    if zero_unnamed {
        return Ok(Some(0));
    }
    let address = address_in(link, merged, starts, place, offset).ok_or(OffsetPastEnd)?;
    Ok(Some(address))
}

/// What a symbol names, if it is placed in a merged section. Takes logarithmic time.
pub(crate) fn symbol_place(link: &LinkInput, symbol: SymbolId) -> Option<SymbolPlace<'_>>
    requires { IsWellFormed link.now }
    ensures names { option_map lent_place result ≡ symbol_place link.now.groups symbol }
    ensures there { (p : SymbolPlace) → result ≡ Some p → IsMergePlace link.now (lent_place p) }
{
    match link.groups.symbol_in_file(symbol) {
        Some(found) => place_in(link, found.file, found.symbol),
        None => None,
    }
}

/// What a symbol of a file names, if it is placed in a merged section. Takes constant time.
pub(crate) fn place_in<'link>(
    link: &'link LinkInput,
    file: FileRef<'link>,
    symbol: &InputSymbol,
) -> Option<SymbolPlace<'link>>
    requires well_formed { IsWellFormed link.now }
    requires there { file_in link.now.groups file.id ≡ Some file.file.now }
    ensures names { option_map lent_place result ≡ merge_place link.now.groups (file_of file.entry, symbol.now) }
    ensures there { (p : SymbolPlace) → result ≡ Some p → IsMergePlace link.now (lent_place p) }
{
    let SymbolPlacement::Section { index, offset } = &symbol.at else {
        return None;
    };
    let section = file.file.sections.get(*index as usize)?;
    if !section.slot.is_merge() {
        return None;
    }
    let first = link.groups.input_start(file.id)?;
    Some(SymbolPlace {
        number: first as u32 + *index,
        section,
        offset: *offset,
        is_named: symbol.name.len() != 0,
    })
}

/// The address of an offset of a merged section; none at the end of its data or past it.
fn address_in(
    link: &LinkInput,
    merged: &[MergedStringsSection<'_>],
    starts: &MergedStringStartAddresses,
    place: SymbolPlace<'_>,
    offset: u64,
) -> Option<u64>
    requires well_formed { IsWellFormed link.now }
    requires merged { merged.now ≡ (link_inputs link.now).outputs }
    requires starts { AreStartsOf merged.now starts.now }
    requires place { IsMergePlace link.now (lent_place place) }
    ensures { result ≡ address_in link.now (image_start starts.now) (lent_place place.entry) offset }
{
    if offset >= place.section.bytes.len() as u64 {
        return None;
    }
    let output = section_of_part(&link.plan.sections, place.section.part);
    let found = merged[output].place_in_input(place.number, offset)?;
    Some(starts.bucket(output, found.bucket()) + found.offset_in_bucket())
}
