//! The rule on input sections: what a good one is.

ghost use Rattle.std.specs.Prelude.{◌≡◌, ◌+◌, false, nat_le, slice_get};
ghost use Rattle.std.specs.List.{list_all, zip};
ghost use Rattle.std.specs.Option.{option_map_or};
ghost use Rattle.lk_link.specs.InputRules.{are_input_attrs, fits_part, has_good_content, has_good_part, is_good_input, is_good_relax, is_good_reloc, is_good_singleton, rise};
ghost use Rattle.lk_link.specs.Parts.{all_parts};

use crate::parts::is_free_part;
use lk_link::plan::{Plan, PlanPart};
use lk_link::relocation::{RelaxCandidate, Relocation};
use lk_link::section::InputSection;

/// Whether a section of a file with so many symbols is discarded, or its part is good and so is what it holds.
pub fn is_good_input(plan: &Plan, symbols: usize, section: &InputSection) -> bool
    ensures { result ≡ is_good_input plan.now symbols section.now }
{
    section.slot.is_discarded()
        || has_good_part(plan, section) && has_good_content(symbols, section)
}

/// Whether the part is one of the plan's and no table part, and fits.
fn has_good_part(plan: &Plan, section: &InputSection) -> bool
    ensures { result ≡ has_good_part plan.now section.now }
{
    is_free_part(plan, section.part)
        && fits_part_of(plan, section)
        && is_good_singleton(plan, section)
}

/// Whether the part is there and fits.
fn fits_part_of(plan: &Plan, section: &InputSection) -> bool
    ensures { result ≡ option_map_or (fits_part section.now) (slice_get (all_parts plan.now.sections) section.now.part) false }
{
    match plan.sections.part(section.part) {
        None => false,
        Some(part) => fits_part(section, part),
    }
}

/// Whether a section fits a part: a merge section one of alignment 1, and a sorted one, which is plain, one that isn't
/// packed.
fn fits_part(section: &InputSection, part: &PlanPart) -> bool
    ensures { result ≡ fits_part section.now part.now }
{
    (!section.slot.is_merge() || part.alignment == 1)
        && (!section.sorted || section.slot.is_regular() && !part.packed)
}

/// Whether a section that stays an output section of its own is plain, and isn't sorted.
fn is_good_singleton(plan: &Plan, section: &InputSection) -> bool
    ensures { result ≡ is_good_singleton plan.now section.now }
{
    !plan.is_singleton_part(section.part) || section.slot.is_regular() && !section.sorted
}

/// Whether attributes are among those for writing and code, and relocations and relaxations are good, in a file of so
/// many symbols.
fn has_good_content(symbols: usize, section: &InputSection) -> bool
    ensures { result ≡ has_good_content symbols section.now }
{
    are_input_attrs(section.attrs)
        && are_good_relocs(section.size, symbols, section.relocs.as_slice())
        && are_good_relaxations(section.size, symbols, section.relax.as_slice())
        && rise(section.relax.as_slice())
}

/// Whether attributes are none, those for writing or code, or both.
fn are_input_attrs(attrs: u32) -> bool
    ensures { result ≡ are_input_attrs attrs }
{
    matches!(attrs, 0 | 2 | 4 | 6)
}

/// Whether all relocations stand inside so many bytes, and name one of so many symbols.
fn are_good_relocs(size: u64, symbols: usize, relocs: &[Relocation]) -> bool
    ensures { result ≡ list_all (is_good_reloc size symbols) relocs.now }
{
    relocs.iter().all(|reloc| reloc.offset < size && (reloc.symbol as usize) < symbols)
}

/// Whether all relaxations take a byte or more, inside so many bytes, and name one of so many symbols.
fn are_good_relaxations(size: u64, symbols: usize, relaxations: &[RelaxCandidate]) -> bool
    ensures { result ≡ list_all (is_good_relax size symbols) relaxations.now }
{
    relaxations
        .iter()
        .all(|relax| is_good_relax(size, symbols, relax))
}

/// Whether a relaxation does.
fn is_good_relax(size: u64, symbols: usize, relax: &RelaxCandidate) -> bool
    ensures { result ≡ is_good_relax size symbols relax.now }
{
    1 <= relax.del && ends_within(relax, size) && (relax.symbol as usize) < symbols
}

/// Whether a relaxation ends at this offset, or before.
#[tactic(auto, using(std::proofs::lemmas::Bool::Decides::nat_tests))]
fn ends_within(relax: &RelaxCandidate, offset: u64) -> bool
    ensures { result ≡ nat_le (relax.now.at + relax.now.del) offset }
{
    relax.del <= offset && relax.at <= offset - relax.del
}

/// Whether each begins where the one before ends, or later.
fn rise(relaxations: &[RelaxCandidate]) -> bool
    ensures { result ≡ rise relaxations.now }
{
    rise_to(relaxations, &relaxations[relaxations.len().min(1)..])
}

/// Whether each ends where the one at its place among the next ones begins, or before.
fn rise_to(relaxations: &[RelaxCandidate], next: &[RelaxCandidate]) -> bool
    ensures { result ≡ list_all (λ p. nat_le (p.0.at + p.0.del) p.1.at) (zip relaxations.now next.now) }
{
    relaxations
        .iter()
        .zip(next.iter())
        .all(|(relax, next)| ends_within(relax, next.at))
}
