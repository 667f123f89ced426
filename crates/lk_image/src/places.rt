//! Where sections and merged data stand in the file.

ghost use Rattle.std.specs.Prelude.{◌≡◌, ◌^◌, ◌<◌, ◌==◌, IfSome, fold, length, map, max, position, slice_index};
ghost use Rattle.lk_link.specs.Walks.{input_of};
ghost use Rattle.lk_link.specs.WellFormed.{IsWellFormed};
ghost use Rattle.lk_expressions.specs.Records.{file_end, record_at};
ghost use Rattle.lk_soundness.specs.FileBytes.{file_place};
ghost use Rattle.lk_image.specs.Places.{image_length, is_backed_part, is_in_file, merged_file_part, merged_part, merged_place, section_place};

use lk_expressions::OutputRecordLayout;
use lk_layout::Layout;
use lk_link::InputRef;
use lk_link::ids::{OutputSectionId, PartId};
use lk_link::link::LinkInput;
use lk_link::marks::is_marked;
use lk_link::part_sections::section_of_part;
use lk_link::plan::PlanPart;

/// The bytes of an image: it ends where the last output section ends in the file. Looks at each output section once.
#[tactic(auto, unfolding(crate::specs::Places::image_length))]
pub(crate) fn image_length(layout: &Layout<'_>) -> u64
    ensures { result ≡ image_length layout.now }
{
    greatest_end(layout.section_layouts())
}

/// The greatest end of some ranges of the file; 0 where there are none.
fn greatest_end(records: &[OutputRecordLayout]) -> u64
    ensures { result ≡ fold max 0 (map file_end records.now) }
{
    let mut end = 0;
    for record in records {
        end = record.file_end().max(end);
    }
    end
}

/// Whether an input section, with its number over all files, is live, and its bytes stand in the file. Takes logarithmic time in the
/// output sections.
#[tactic(auto, unfolding(crate::specs::Places::is_in_file))]
pub(crate) fn is_in_file(
    link: &LinkInput,
    layout: &Layout<'_>,
    number: usize,
    input: InputRef<'_>,
) -> bool
    requires good { IsWellFormed link.now }
    ensures { result ≡ is_in_file link.now layout.now (number, input_of input.entry) }
{
    is_marked(layout.live_marks(), number) && is_backed_part(link, input.section.part)
}

/// Whether the bytes of a part stand in the file.
fn is_backed_part(link: &LinkInput, part: PartId) -> bool
    requires good { IsWellFormed link.now }
    ensures { result ≡ is_backed_part link.now.plan part }
{
    let sections = &link.plan.sections;
    if part.as_usize() >= sections.parts().len() {
        return false;
    }
    let section = section_of_part(sections, part);
    link.plan
        .is_file_backed(OutputSectionId::from_u32(section as u32))
}

/// Where the bytes of such a section stand in the file.
#[tactic(auto, unfolding(crate::specs::Places::section_place))]
pub(crate) fn section_place(
    _link: &LinkInput,
    layout: &Layout<'_>,
    number: usize,
    input: InputRef<'_>,
) -> u64
    requires fits { section_place _link.now layout.now (number, input_of input) < 2 ^ 64 }
    ensures { result ≡ section_place _link.now layout.now (number, input_of input.entry) }
{
    let address = address_at(layout.section_addresses(), number);
    place_in_part(
        layout.section_part_layouts(),
        input.section.part.as_usize(),
        address,
    )
}

/// The address of an input section by its number; 0 past the last.
fn address_at(addresses: &[u64], number: usize) -> u64
    ensures { result ≡ slice_index addresses.now number }
{
    addresses.get(number).copied().unwrap_or(0)
}

/// Where an address of a part stands in the file, by the records of all parts.
fn place_in_part(records: &[OutputRecordLayout], part: usize, address: u64) -> u64
    requires fits { file_place (record_at records.now part) address < 2 ^ 64 }
    ensures { result ≡ file_place (record_at records.now part) address }
{
    match records.get(part) {
        Some(record) => record.file_offset + address.saturating_sub(record.mem_offset),
        None => address,
    }
}

/// The part of an output section where merged data stand, if the section's bytes stand in the file.
#[tactic(auto, unfolding(crate::specs::Places::merged_file_part))]
pub(crate) fn merged_file_part(link: &LinkInput, section: usize) -> Option<usize>
    requires good { IsWellFormed link.now }
    requires there { section < length link.now.plan.sections }
    ensures { result ≡ merged_file_part link.now.plan section }
{
    if link
        .plan
        .is_file_backed(OutputSectionId::from_u32(section as u32))
    {
        merged_part(link, section)
    } else {
        None
    }
}

/// The part of an output section where merged data stand: the one of alignment 1, if there is one.
fn merged_part(link: &LinkInput, section: usize) -> Option<usize>
    requires good { IsWellFormed link.now }
    requires there { section < length link.now.plan.sections }
    ensures { result ≡ merged_part link.now.plan.sections section }
{
    let sections = &link.plan.sections;
    match unit_part(sections.as_slice()[section].parts.as_slice()) {
        Some(place) => Some(sections.first_part(section) + place),
        None => None,
    }
}

/// The place of the first of some parts with alignment 1, if there is one.
fn unit_part(parts: &[PlanPart]) -> Option<usize>
    ensures found { result ≡ position (λ p. p.alignment == 1) parts.now }
    ensures inside { IfSome result (λ place. place < length parts.now) }
{
    parts.iter().position(|part| part.alignment == 1)
}

/// Where the merged data of an output section stand in such a part.
#[tactic(auto, unfolding(crate::specs::Places::merged_place))]
pub(crate) fn merged_place(layout: &Layout<'_>, section: usize, part: usize) -> u64
    requires fits { merged_place layout.now section part < 2 ^ 64 }
    ensures { result ≡ merged_place layout.now section part }
{
    let start = layout.merged_string_start_addresses().image_start(section);
    place_in_part(layout.section_part_layouts(), part, start)
}
