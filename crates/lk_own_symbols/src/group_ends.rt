//! The ends of output sections together with those that are secondary to them, all of them in one pass.

ghost use Rattle.std.specs.Prelude.{◌≡◌, ◌<◌, ℕ, IfOk, if◌then◌else◌, length, map, max, slice_index};
ghost use Rattle.std.specs.Option.{IfSome};
ghost use Rattle.lk_link.specs.WellFormed.{IsWellFormed};
ghost use Rattle.lk_expressions.specs.Records.{mem_end};
ghost use Rattle.lk_place.specs.Secondaries.{is_secondary_to};
ghost use Rattle.lk_own_symbols.specs.Edges.{group_ends};

use lk_link::{LinkInput, PlanSection};
use lk_place::OutputRecordLayout;
use std::alloc::{AllocError, Global};

/// Raises the end of the section that this one is secondary to, if it is secondary, to this one's.
fn raise_primary(ends: &mut [u64], section: &PlanSection, end: u64)
    requires { IfSome section.now.primary (λ p. p < length ends.old) }
    ensures { (s : ℕ) → slice_index ends.new s
        ≡ (if is_secondary_to s section.now then max (slice_index ends.old s) end else slice_index ends.old s) }
{
    if let Some(primary) = section.primary {
        let primary = primary.as_usize();
        ends[primary] = ends[primary].max(end);
    }
}

/// The end in memory of each section by itself.
fn own_ends(alloc: Global, sections: &[OutputRecordLayout]) -> Result<Vec<u64>, AllocError>
    ensures { IfOk result (λ ends. ends.items ≡ map mem_end sections.now) }
{
    let mut ends = Vec::with_capacity(alloc, sections.len())?;
    for section in sections {
        ends.push(section.mem_end())?;
    }
    Ok(ends)
}

/// For each section the greatest end in memory of it and of those that are secondary to it.
pub(crate) fn group_ends(
    alloc: Global,
    link: &LinkInput,
    sections: &[OutputRecordLayout],
) -> Result<Vec<u64>, AllocError>
    requires well_formed { IsWellFormed link.now }
    requires each { length sections.now ≡ length link.now.plan.sections }
    ensures { IfOk result (λ ends. ends.items ≡ group_ends link.now.plan.sections sections.now) }
{
    let mut ends = own_ends(alloc, sections)?;
    for (number, section) in link.plan.sections.as_slice().iter().enumerate() {
        raise_primary(ends.as_mut_slice(), section, sections[number].mem_end());
    }
    Ok(ends)
}
