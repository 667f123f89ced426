//! The output section that each part belongs to.

ghost use Rattle.std.specs.Prelude.{◌≡◌, ◌++◌, ◌<◌, ◌^◌, IfOk, OnOk, Some, length, map, slice_get};
ghost use Rattle.lk_link.specs.Parts.{all_parts, part_sections};

use crate::ids::PartId;
use crate::plan::{PlanPart, PlanSection, PlanSections};
use std::alloc::{AllocError, Global};

/// The number of the output section of a part. Takes logarithmic time.
pub fn section_of_part(sections: &PlanSections, part: PartId) -> usize
    requires { part < length (all_parts sections.now) }
    ensures { slice_get (part_sections sections.now) part ≡ Some result }
{
    let part = part.as_usize();
    let mut low = 0;
    let mut high = sections.len();
    while high - low > 1 {
        let middle = low + (high - low) / 2;
        if sections.first_part(middle) <= part {
            low = middle;
        } else {
            high = middle;
        }
    }
    low
}

/// The number of the output section of each part.
pub fn section_of_parts(alloc: Global, sections: &[PlanSection]) -> Result<Vec<u32>, AllocError>
    requires { length sections.now < 2 ^ 32 }
    ensures { IfOk result (λ numbers. numbers.items ≡ part_sections sections.now) }
{
    let mut numbers = Vec::new(alloc);
    for (number, section) in sections.iter().enumerate() {
        push_numbers(&mut numbers, number as u32, section.parts.as_slice())?;
    }
    Ok(numbers)
}

/// Adds the number of an output section for each of its parts.
fn push_numbers(numbers: &mut Vec<u32>, number: u32, parts: &[PlanPart]) -> Result<(), AllocError>
    ensures { OnOk result (numbers.new.items ≡ numbers.old.items ++ map (λ p. number) parts.now) }
{
    for _part in parts {
        numbers.push(number)?;
    }
    Ok(())
}
