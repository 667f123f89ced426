//! The alignments at which output sections and load segments are placed.
//!
//! A section stands at the greatest alignment of its parts with bytes, so that the first of them needs no gap behind the
//! section's start; a load segment at the greatest of the sections inside, and at least at a page, so that memory can go
//! along the file. Both go by the plan and the bytes of its parts, and are computed before anything is placed.

ghost use Rattle.std.specs.Prelude.{◌≡◌, ◌+◌, ◌^◌, ◌<◌, ◌≤◌, true, All, IfOk, length, map, max, nat_lt, slice_index, if◌then◌else◌};
ghost use Rattle.std.specs.List.{enumerate_from, list_all};
ghost use Rattle.lk_link.specs.Alignments.{is_alignment};
ghost use Rattle.lk_link.specs.Parts.{all_parts};
ghost use Rattle.lk_link.specs.Rules.{is_good_section};
ghost use Rattle.lk_link.specs.WellFormed.{IsWellFormed};
ghost use Rattle.lk_place.specs.Alignments.{filled_alignments, greatest_alignment, greatest_of};
ghost use Rattle.lk_place.specs.Alignments.{section_alignments, segment_alignments, thread_local_ones};
ghost use Rattle.lk_place.specs.Walk.{AreAlignments};

use lk_link::alignment::Alignment;
use lk_link::ids::OutputSectionId;
use lk_link::link::LinkInput;
use lk_link::list::List;
use lk_link::plan::{Plan, PlanPart};
use std::alloc::{AllocError, Global};

/// The alignments of all sections and segments, by number, and of all thread-local sections together.
#[derive(Drop)]
pub(crate) struct Alignments {
    pub(crate) sections: List<Alignment>,
    pub(crate) segments: List<Alignment>,
    /// The greatest of the thread-local sections, 1 where there is none.
    pub(crate) thread_local: Alignment,
}

/// The greater of this alignment and a part's, if the part has bytes.
fn raise(greatest: Alignment, part: &PlanPart, size: u64) -> Alignment
    requires { is_alignment part.now.alignment ≡ true }
    ensures { result ≡ (if nat_lt 0 size then max greatest part.now.alignment else greatest) }
{
    if size > 0 {
        greatest.greater(Alignment::new(part.alignment).unwrap())
    } else {
        greatest
    }
}

/// The greatest alignment of the parts with bytes, and at least this one. `first` is the number of the first part.
fn greatest_of_parts(least: Alignment, parts: &[PlanPart], first: usize, sizes: &[u64]) -> Alignment
    requires aligned { All (λ part. is_alignment part.alignment ≡ true) parts.now }
    requires each { first + length parts.now ≤ length sizes.now }
    ensures { result ≡ greatest_of least (filled_alignments sizes.now (enumerate_from first parts.now)) }
{
    let mut greatest = least;
    let mut number = first;
    for part in parts {
        greatest = raise(greatest, part, sizes[number]);
        number += 1;
    }
    greatest
}

/// The greatest alignment of a section's parts with bytes, and at least its own. `sizes` has the bytes of each part.
#[tactic(auto, using(lk_link::proofs::PartNumbers::part_numbers, crate::proofs::Checked::good_sections))]
fn section_alignment(plan: &Plan, sizes: &[u64], section: usize) -> Alignment
    requires good { list_all (is_good_section plan.now.sections) plan.now.sections ≡ true }
    requires each { length sizes.now ≡ length (all_parts plan.now.sections) }
    requires in_range { section < length plan.now.sections }
    ensures { result ≡ greatest_alignment plan.now sizes.now section }
{
    let planned = &plan.sections.as_slice()[section];
    let least = Alignment::new(planned.align).unwrap();
    let first = plan.sections.first_part(section);
    greatest_of_parts(least, planned.parts.as_slice(), first, sizes)
}

/// The greatest alignment of each section, by number.
fn section_alignments(
    alloc: Global,
    plan: &Plan,
    sizes: &[u64],
) -> Result<Vec<Alignment>, AllocError>
    requires good { list_all (is_good_section plan.now.sections) plan.now.sections ≡ true }
    requires each { length sizes.now ≡ length (all_parts plan.now.sections) }
    ensures { IfOk result (λ all. all.items ≡ section_alignments plan.now sizes.now) }
{
    let mut all = Vec::with_capacity(alloc, plan.sections.len())?;
    for (number, _) in plan.sections.as_slice().iter().enumerate() {
        all.push(section_alignment(plan, sizes, number))?;
    }
    Ok(all)
}

/// The greatest of this alignment and those of some sections, by the alignments of all.
fn greatest_inside(
    least: Alignment,
    alignments: &[Alignment],
    inside: &[OutputSectionId],
) -> Alignment
    requires { All (λ s. s < length alignments.now) inside.now }
    ensures { result ≡ greatest_of least (map (slice_index alignments.now) inside.now) }
{
    let mut greatest = least;
    for section in inside {
        greatest = greatest.greater(alignments[section.as_usize()]);
    }
    greatest
}

/// The same for each of several lists of sections.
fn greatest_of_each(
    alloc: Global,
    least: Alignment,
    alignments: &[Alignment],
    insides: &[List<OutputSectionId>],
) -> Result<Vec<Alignment>, AllocError>
    requires { All (λ inside. All (λ s. s < length alignments.now) inside) insides.now }
    ensures { IfOk result (λ all. all.items ≡ map (λ inside. greatest_of least (map (slice_index alignments.now) inside)) insides.now) }
{
    let mut all = Vec::with_capacity(alloc, insides.len())?;
    for inside in insides {
        all.push(greatest_inside(least, alignments, inside.as_slice()))?;
    }
    Ok(all)
}

/// The greater of this alignment and a section's, if the section counts.
fn raise_if(counts: bool, greatest: Alignment, alignment: Alignment) -> Alignment
    ensures { result ≡ (if counts then max greatest alignment else greatest) }
{
    if counts {
        greatest.greater(alignment)
    } else {
        greatest
    }
}

/// The greatest alignment of the thread-local sections, by the alignments of all; 1 where there is none.
fn thread_local_alignment(plan: &Plan, alignments: &[Alignment]) -> Alignment
    requires few { length alignments.now ≤ 2 ^ 32 }
    ensures { result ≡ greatest_of 1 (thread_local_ones plan.now alignments.now) }
{
    let mut greatest = Alignment::one();
    for (number, alignment) in alignments.iter().enumerate() {
        let section = OutputSectionId::from_u32(number as u32);
        greatest = raise_if(plan.is_thread_local(section), greatest, *alignment);
    }
    greatest
}

/// The alignments of all sections and segments of a plan. `sizes` has the bytes of each part, by number over all sections.
pub(crate) fn compute_alignments(
    alloc: Global,
    link: &LinkInput,
    sizes: &[u64],
) -> Result<Alignments, AllocError>
    requires well_formed { IsWellFormed link.now }
    requires each { length sizes.now ≡ length (all_parts link.now.plan.sections) }
    ensures { IfOk result (AreAlignments link.now.plan sizes.now) }
{
    let plan = &link.plan;
    let page = Alignment::new(plan.page).unwrap();
    let sections = section_alignments(alloc, plan, sizes)?;
    let insides = plan.sections_of_segments(alloc)?;
    let segments = greatest_of_each(alloc, page, &sections, &insides)?;
    let thread_local = thread_local_alignment(plan, &sections);
    Ok(Alignments {
        sections: List::from_vec(sections),
        segments: List::from_vec(segments),
        thread_local,
    })
}

/// The place alignment of each segment, by number: the greatest of the page and of the sections inside
/// (libwild: `compute_segment_alignments`). `sizes` has the bytes of each part, by number over all sections. Takes time for
/// each section, event and segment.
pub fn compute_segment_alignments(
    alloc: Global,
    link: &LinkInput,
    sizes: &[u64],
) -> Result<Vec<Alignment>, AllocError>
    requires well_formed { IsWellFormed link.now }
    requires each { length sizes.now ≡ length (all_parts link.now.plan.sections) }
    ensures { IfOk result (λ all. all.items ≡ segment_alignments link.now.plan sizes.now) }
{
    let alignments = compute_alignments(alloc, link, sizes)?;
    Ok(alignments.segments.into_vec())
}
