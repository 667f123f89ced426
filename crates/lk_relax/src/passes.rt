//! A pass over the sections that are looked at: what more is found is deleted, and what falls by that tells what is looked at again.

ghost use Rattle.std.specs.Prelude.{◌≡◌, ◌<◌, ◌-◌, ◌==◌, ◌^◌, ℕ, IfOk, IsSome, List, OnOk, if◌then◌else◌, length, map, min, slice_index};
ghost use Rattle.std.specs.Option.{option_map_or};
ghost use Rattle.lk_link.specs.declared.ids.FileId.{FileId};
ghost use Rattle.lk_link.specs.Files.{file_in};
ghost use Rattle.lk_link.specs.Parts.{part_at};
ghost use Rattle.lk_link.specs.Sizes.{capacity};
ghost use Rattle.lk_link.specs.Symbols.{file_number};
ghost use Rattle.lk_link.specs.WellFormed.{IsWellFormed};
ghost use Rattle.lk_deltas.specs.Deletions.{AreBoth};
ghost use Rattle.lk_live.specs.Reach.{AreLive};
ghost use Rattle.lk_sizes.specs.Owners.{own_sizes};
ghost use Rattle.lk_relax.specs.PassWords.{IsFound, deleted_by, fall_between, is_within, near_ones, standing_with, with_deleted};
ghost use Rattle.lk_relax.specs.RelaxationWords.{HasShrunk, IsPassed, IsStage, stage_in};
ghost use Rattle.lk_relax.specs.Relaxed.{for_link};
ghost use Rattle.lk_relax.specs.Scan.{PassState, ranges_of, scanned};
ghost use Rattle.lk_relax.specs.Stages.{Relaxing, standing_at};

use crate::deletions::sizes_after;
use crate::laws;
use crate::scan::{StandingLink, candidates_of, relaxation_scan_pass};
use lk_deltas::{RelaxDeltaMap, SectionRelaxDeltas};
use lk_expressions::SymbolPositions;
use lk_link::{FileId, InputSection, LinkInput, PartId, Section};
use lk_live::Live;
use lk_place::Placed;
use lk_sizes::{PartOwners, resize_owners};
use std::alloc::{AllocError, Global};

/// A stage of relaxation: what a pass goes by.
#[derive(Drop)]
pub(crate) struct InHand {
    /// What comes into the parts by what is deleted.
    pub(crate) owners: PartOwners,
    pub(crate) deltas: Vec<RelaxDeltaMap>,
    /// The placement by that.
    pub(crate) placed: Placed,
    /// The sections that a pass looks at.
    pub(crate) scan: Vec<(FileId, u32)>,
    /// The positions of all input sections, and of all symbols.
    pub(crate) sections: Vec<Option<(PartId, u64)>>,
    pub(crate) symbols: SymbolPositions,
}

/// What a pass leaves, with the placement from before it.
#[derive(Drop)]
pub(crate) struct Passed {
    pub(crate) owners: PartOwners,
    pub(crate) deltas: Vec<RelaxDeltaMap>,
    pub(crate) placed: Placed,
    /// The sections to be looked at again.
    pub(crate) scan: Vec<(FileId, u32)>,
    /// By how many bytes capacities fell; a number past 2^64 - 1 may be given as another such.
    pub(crate) fall: u128,
}

/// What a pass leaves beside what is deleted.
#[derive(Drop)]
pub(crate) struct Shrunk {
    /// The sizes of all input sections behind it.
    pub(crate) sizes: Vec<u64>,
    /// The sections to be looked at again.
    pub(crate) scan: Vec<(FileId, u32)>,
    /// By how many bytes capacities fell; a number past 2^64 - 1 may be given as another such.
    pub(crate) fall: u128,
}

/// A pass over the sections that a stage looks at. Takes time by their candidates, and by all input sections.
pub(crate) fn pass(
    alloc: Global,
    link: &LinkInput,
    live: &Live,
    hand: InHand,
) -> Result<Passed, AllocError>
    requires good { IsWellFormed link.now }
    requires live { AreLive link.now live.now }
    requires stage { (by : Relaxing) × IsStage (for_link link.now live.now by) hand }
    ensures { (by : Relaxing) (is : IsStage (for_link link.now live.now by) hand)
        → IfOk result (IsPassed (for_link link.now live.now by) (stage_in hand is) hand) }
{
    laws::sizes_fall_by_passes();
    let mut hand = hand;
    let shrunk = shrink(alloc, link, live, &mut hand)?;
    match resize_owners(alloc, link, live, hand.owners, &shrunk.sizes) {
        Ok(owners) => Ok(Passed {
            owners,
            deltas: hand.deltas,
            placed: hand.placed,
            scan: shrunk.scan,
            fall: shrunk.fall,
        }),
        Err(error) => Err(error),
    }
}

/// Deletes what more goes of the sections that a stage looks at.
fn shrink(
    alloc: Global,
    link: &LinkInput,
    live: &Live,
    hand: &mut InHand,
) -> Result<Shrunk, AllocError>
    requires good { IsWellFormed link.now }
    requires live { AreLive link.now live.now }
    requires stage { (by : Relaxing) × IsStage (for_link link.now live.now by) hand.old }
    ensures { (by : Relaxing) (is : IsStage (for_link link.now live.now by) hand.old)
        → IfOk result (HasShrunk (for_link link.now live.now by) (stage_in hand.old is) hand.old hand.new) }
{
    let found = look(alloc, link, live, hand)?;
    delete_found(link, &found, &mut hand.deltas)?;
    let sizes = sizes_after(alloc, link, &hand.deltas)?;
    let fall = fall_between(link, hand.owners.sizes(), &sizes);
    let scan = near_sections(alloc, &found, fall)?;
    Ok(Shrunk { sizes, scan, fall })
}

/// What more is to be deleted of the sections that a stage looks at.
fn look(
    alloc: Global,
    link: &LinkInput,
    live: &Live,
    hand: &InHand,
) -> Result<Vec<(FileId, u32, SectionRelaxDeltas, Option<u64>)>, AllocError>
    requires good { IsWellFormed link.now }
    requires stage { (by : Relaxing) × IsStage (for_link link.now live.now by) hand.now }
    ensures { (by : Relaxing) (is : IsStage (for_link link.now live.now by) hand.now)
        → IfOk result (λ found. found.items ≡ map (scanned (standing_at (for_link link.now live.now by) (stage_in hand.now is))) hand.now.scan.items) }
{
    let before = StandingLink {
        link,
        live,
        sections: &hand.sections,
        symbols: &hand.symbols,
        parts: hand.placed.parts.as_slice(),
        deltas: &hand.deltas,
    };
    relaxation_scan_pass(alloc, before, &hand.scan)
}

/// Deletes what more was found in sections of files.
fn delete_found(
    link: &LinkInput,
    found: &[(FileId, u32, SectionRelaxDeltas, Option<u64>)],
    deltas: &mut Vec<RelaxDeltaMap>,
) -> Result<(), AllocError>
    requires good { IsWellFormed link.now }
    requires found { (by : PassState) × (scan : List (FileId × ℕ)) × IsFound link.now deltas.old.items by scan found.now }
    ensures { (by : PassState) (scan : List (FileId × ℕ)) → IsFound link.now deltas.old.items by scan found.now
        → OnOk result (deltas.new.items ≡ deleted_by (standing_with link.now deltas.old.items by) scan) }
{
    lk_deltas::laws::good_candidates_can_go();
    lk_deltas::laws::picked_can_go();
    lk_deltas::laws::picked_are_new();
    for one in found {
        // Reading the section's size tells that its candidates can go.
        let _candidates = candidates_of(link, one.0, one.1);
        delete_more(link, one.0, one.1, &one.2, deltas)?;
    }
    Ok(())
}

/// Deletes more of a section of a file.
fn delete_more(
    link: &LinkInput,
    file: FileId,
    section: u32,
    more: &SectionRelaxDeltas,
    deltas: &mut Vec<RelaxDeltaMap>,
) -> Result<(), AllocError>
    requires there { IsSome (file_in link.now.groups file) }
    requires entry { file_number link.now.groups file < length deltas.old.items }
    requires apart { (all : List (ℕ × ℕ)) × AreBoth (ranges_of link.now.groups deltas.old.items file section) more.now all }
    ensures { (all : List (ℕ × ℕ)) → AreBoth (ranges_of link.now.groups deltas.old.items file section) more.now all
        → OnOk result (deltas.new.items ≡ (if length more.now == 0 then deltas.old.items else with_deleted link.now.groups deltas.old.items file section all)) }
{
    if more.is_empty() {
        return Ok(());
    }
    if let Some(number) = link.groups.file_number(file) {
        deltas[number].delete(section, more)?;
    }
    Ok(())
}

/// By how many bytes the capacities of input sections fall from some sizes, or those of the description, to others; a number past
/// 2^64 - 1 may be given as another such. Looks at each input section once.
fn fall_between(link: &LinkInput, before: Option<&[u64]>, after: &[u64]) -> u128
    requires { IsWellFormed link.now }
    ensures { min result (2 ^ 64) ≡ min (fall_between link.now (option_map_or (λ s. s.now) before.entry (own_sizes link.now)) after.now) (2 ^ 64) }
{
    let mut fall = 0u128;
    let mut number = 0;
    for input in link.groups.inputs() {
        let old = size_at(before, number, input.section);
        let new = size_at(Some(after), number, input.section);
        fall = fall.saturating_add(capacity_fall(link, input.section.part, old, new));
        number += 1;
    }
    fall
}

/// The size of an input section with this number, by those of all, or by the description.
fn size_at(sizes: Option<&[u64]>, number: usize, section: &InputSection) -> u64
    ensures { result ≡ option_map_or (λ s. slice_index s.now number) sizes.entry section.now.size }
{
    match sizes {
        Some(sizes) => sizes.get(number).copied().unwrap_or(0),
        None => section.size,
    }
}

/// By how many bytes what a section takes in a part falls from one size to another.
fn capacity_fall(link: &LinkInput, part: PartId, old: u64, new: u64) -> u128
    requires { IsWellFormed link.now }
    ensures { result ≡ capacity (part_at link.now.plan.sections part) old - capacity (part_at link.now.plan.sections part) new }
{
    if old == new {
        return 0;
    }
    capacity_in(link, part, old).saturating_sub(capacity_in(link, part, new))
}

/// The bytes that a size takes in a part.
fn capacity_in(link: &LinkInput, part: PartId, size: u64) -> u128
    requires { IsWellFormed link.now }
    ensures { result ≡ capacity (part_at link.now.plan.sections part) size }
{
    match link.plan.sections.part(part) {
        Some(part) => Section { size }.exact_capacity(part),
        None => u128::from(size),
    }
}

/// Those of some sections that are to be looked at again, as so many bytes fell: one of their candidates missed by no more.
fn near_sections(
    alloc: Global,
    found: &[(FileId, u32, SectionRelaxDeltas, Option<u64>)],
    fall: u128,
) -> Result<Vec<(FileId, u32)>, AllocError>
    ensures { (total : ℕ) → min fall (2 ^ 64) ≡ min total (2 ^ 64) → IfOk result (λ near. near.items ≡ near_ones total found.now) }
{
    let mut near = Vec::new(alloc);
    for one in found {
        if is_within(fall, one.3) {
            near.push((one.0, one.1))?;
        }
    }
    Ok(near)
}

/// Whether a margin is no more bytes than fell.
fn is_within(fall: u128, margin: Option<u64>) -> bool
    ensures { (total : ℕ) → min fall (2 ^ 64) ≡ min total (2 ^ 64) → result ≡ is_within total margin }
{
    match margin {
        Some(margin) => u128::from(margin) <= fall,
        None => false,
    }
}
