//! The attributes of output sections: those that the plan gives them, with those of the live and merged sections that go to
//! their parts.

ghost use Rattle.std.specs.Prelude.{◌≡◌, ◌<◌, fold, if◌then◌else◌, length, map, bit_or, IfOk};
ghost use Rattle.lk_link.specs.Parts.{all_parts};
ghost use Rattle.lk_link.specs.PlanSections.{is_singletons, own_attributes};
ghost use Rattle.lk_link.specs.WellFormed.{IsWellFormed};
ghost use Rattle.lk_live.specs.Reach.{AreLive};
ghost use Rattle.lk_live.specs.declared.live.Live.{Live};
ghost use Rattle.lk_sizes.specs.Attributes.{all_section_attributes, part_attributes};
ghost use Rattle.lk_sizes.specs.Contents.{part_contents};
ghost use Rattle.lk_sizes.specs.Owners.{Filling, by_part, in_link};
ghost use Rattle.lk_sizes.specs.Tables.{in_section};

use crate::owners::{PartContents, PartTotal, add_inputs};
use lk_live::Live;
use lk_link::{LinkInput, OutputSectionId, Plan};
use std::alloc::{AllocError, Global};

/// Attributes together with those of parts.
fn join(attrs: u32, parts: &[PartContents]) -> u32
    ensures { result ≡ fold bit_or attrs (map (λ c. c.attrs) parts.now) }
{
    let mut all = attrs;
    for part in parts {
        all |= part.attrs;
    }
    all
}

/// The attributes of an output section, by what comes into its parts.
#[tactic(auto, using(lk_link::proofs::PartNumbers::part_numbers))]
fn section_attributes(plan: &Plan, section: OutputSectionId, contents: &[PartContents]) -> u32
    requires within { section < length plan.now.sections }
    requires count { length contents.now ≡ length (all_parts plan.now.sections) }
    ensures { result ≡ (if is_singletons plan.now section then 0
        else fold bit_or (own_attributes plan.now section) (map (λ c. c.attrs) (in_section plan.now.sections section contents.now))) }
{
    if plan.is_singletons(section) {
        return 0;
    }
    let (first, behind) = plan.sections.part_range(section.as_usize());
    join(plan.own_attributes(section), &contents[first..behind])
}

/// The attributes of each output section, by what comes into the parts. Looks at no input section.
pub fn attributes_of_contents(
    alloc: Global,
    link: &LinkInput,
    contents: &[PartContents],
) -> Result<Vec<u32>, AllocError>
    requires good { IsWellFormed link.now }
    requires count { length contents.now ≡ length (all_parts link.now.plan.sections) }
    ensures contents { (filling : Filling) → contents.now ≡ part_contents (in_link link.now filling)
        → IfOk result (λ all. all.items ≡ all_section_attributes link.now filling.content.live) }
    ensures joined { (live : Live) → map (λ c. c.attrs) contents.now ≡ by_part (part_attributes link.now live) link.now
        → IfOk result (λ all. all.items ≡ all_section_attributes link.now live) }
{
    let plan = &link.plan;
    let mut all = Vec::with_capacity(alloc, plan.sections.len())?;
    for number in 0..plan.sections.len() {
        let section = OutputSectionId::from_u32(number as u32);
        all.push(section_attributes(plan, section, contents))?;
    }
    Ok(all)
}

/// Parts with what was added up for them, but for the bytes.
fn without_bytes(alloc: Global, totals: &[PartTotal]) -> Result<Vec<PartContents>, AllocError>
    ensures { IfOk result (λ contents. map (λ c. c.attrs) contents.items ≡ map (λ t. t.attrs) totals.now) }
{
    let mut contents = Vec::with_capacity(alloc, totals.len())?;
    for total in totals {
        contents.push(PartContents {
            bytes: 0,
            has_image: total.has_image,
            attrs: total.attrs,
        })?;
    }
    Ok(contents)
}

/// The attributes of each output section, by what is live (libwild: `propagate_section_attributes`). Looks at each input section
/// once; a layout, which knows what comes into the parts, takes `attributes_of_contents`.
pub fn propagate_section_attributes(
    alloc: Global,
    link: &LinkInput,
    live: &Live,
) -> Result<Vec<u32>, AllocError>
    requires good { IsWellFormed link.now }
    requires live { AreLive link.now live.now }
    ensures { IfOk result (λ all. all.items ≡ all_section_attributes link.now live.now) }
{
    let totals = add_inputs(alloc, link, live, None)?;
    let contents = without_bytes(alloc, &totals)?;
    let all = attributes_of_contents(alloc, link, &contents)?;
    Ok(all)
}
