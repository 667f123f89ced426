//! What output sections span together with their secondaries.
//!
//! Secondaries are joined to their primaries one after the other, by section number, so that it takes one pass.

ghost use Rattle.std.specs.Prelude.{◌≡◌, ◌+◌, ◌^◌, ◌<◌, ℕ, false, true, None, Some, IfErr, IfOk, OnOk, length, nat_lt, if◌then◌else◌};
ghost use Rattle.std.specs.Option.{IfSome};
ghost use Rattle.lk_link.specs.declared.fault.Place.TheVariants as place;
ghost use Rattle.lk_link.specs.WellFormed.{IsWellFormed};
ghost use Rattle.lk_place.specs.declared.error.PlaceError.TheVariants.{AddressOverflow};
ghost use Rattle.lk_expressions.specs.Records.{record_at};
ghost use Rattle.lk_place.specs.Secondaries.{is_fitting, joined, joined_size, merge_refusal, merged_records};
ghost use Rattle.lk_place.specs.SecondariesSoFar.{if_fitting, joined_to};
ghost use Rattle.lk_place.specs.Segments.{Refuses};

use crate::error::PlaceError;
use crate::hulls::nothing;
use lk_expressions::OutputRecordLayout;
use lk_link::fault::Place;
use lk_link::link::LinkInput;
use lk_link::plan::PlanSection;
use std::alloc::Global;

/// How long a range gets by another one: it stretches to the other's end, or their sizes are added. `None` where it
/// then ends past 2^64 - 1.
#[tactic(auto, using(std::proofs::lemmas::Bool::Decides::nat_tests))]
fn join_sizes(
    stretches: bool,
    start: u64,
    size: u64,
    other_start: u64,
    other_size: u64,
) -> Option<u64>
    requires ends { start + size < 2 ^ 64 }
    requires other_ends { other_start + other_size < 2 ^ 64 }
    ensures { let all = joined_size stretches start size other_start other_size in result ≡ (if nat_lt (start + all) (2 ^ 64) then Some all else None) }
{
    if stretches {
        return Some((start + size).max(other_start + other_size) - start);
    }
    let all = size.checked_add(other_size)?;
    start.checked_add(all)?;
    Some(all)
}

/// What a section spans with a secondary that spans `one`. `None` where an end passes 2^64 - 1.
fn join(
    all: &OutputRecordLayout,
    secondary: &PlanSection,
    one: &OutputRecordLayout,
) -> Option<OutputRecordLayout>
    ensures { result ≡ if_fitting (joined secondary.now all.now one.now) }
{
    let stretches = secondary.counters;
    let file_size = join_sizes(
        stretches,
        all.file_offset,
        all.file_size,
        one.file_offset,
        one.file_size,
    )?;
    let mem_size = join_sizes(
        stretches,
        all.mem_offset,
        all.mem_size,
        one.mem_offset,
        one.mem_size,
    )?;
    let alignment = if one.is_filled() {
        all.alignment.greater(one.alignment)
    } else {
        all.alignment
    };
    Some(OutputRecordLayout {
        file_size,
        mem_size,
        alignment,
        ..*all
    })
}

/// Joins a section, which spans `one`, to its primary, if it is secondary; by itself it then spans nothing.
fn merge_section(
    section: &PlanSection,
    number: usize,
    one: &OutputRecordLayout,
    merged: &mut [OutputRecordLayout],
) -> Result<(), PlaceError>
    requires there { number < length merged.old }
    requires primary { IfSome section.now.primary (λ p. p < length merged.old) }
    ensures joined { IfOk result (λ _. (s : ℕ) → record_at merged.new s ≡ joined_to section.now.primary section.now number one.now merged.old s) }
    ensures fits { OnOk result (IfSome section.now.primary (λ p. is_fitting (joined section.now (record_at merged.old p) one.now) ≡ true)) }
    ensures refusal { IfErr result (λ e. (p : ℕ) × (section.now.primary ≡ Some p) × (e ≡ AddressOverflow (place.Section p))
        × (is_fitting (joined section.now (record_at merged.old p) one.now) ≡ false)) }
{
    if let Some(primary) = section.primary {
        let primary = primary.as_usize();
        let Some(all) = join(&merged[primary], section, one) else {
            return Err(PlaceError::AddressOverflow {
                place: Place::Section(primary),
            });
        };
        merged[primary] = all;
        merged[number] = nothing();
    }
    Ok(())
}

/// What each output section spans together with its secondaries, by the records of all sections; nothing for secondaries
/// (libwild: `merge_secondary_parts`). Takes the secondaries by section number: one with `counters` stretches its primary to
/// its own ends, else its sizes are added, from the primary's start on. Refuses the first with which an end passes 2^64 - 1,
/// by its primary.
pub fn merge_secondary_parts(
    alloc: Global,
    link: &LinkInput,
    sections: &[OutputRecordLayout],
) -> Result<Vec<OutputRecordLayout>, PlaceError>
    requires well_formed { IsWellFormed link.now }
    requires each { length sections.now ≡ length link.now.plan.sections }
    ensures merged { IfOk result (λ merged. merged.items ≡ merged_records link.now.plan.sections sections.now) }
    ensures fits { OnOk result (merge_refusal link.now.plan.sections sections.now ≡ None) }
    ensures refusal { IfErr result (λ e. Refuses e (merge_refusal link.now.plan.sections sections.now)) }
{
    let mut merged = Vec::with_capacity(alloc, sections.len())?;
    merged.extend_from_slice(sections)?;
    for (number, section) in link.plan.sections.as_slice().iter().enumerate() {
        merge_section(section, number, &sections[number], merged.as_mut_slice())?;
    }
    Ok(merged)
}
