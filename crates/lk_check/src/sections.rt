//! The rule on output sections.

ghost use Rattle.std.specs.Prelude.{◌≡◌, nat_lt};
ghost use Rattle.std.specs.List.{list_all, zip};
ghost use Rattle.lk_link.specs.declared.fault.Rule.TheVariants as rule;
ghost use Rattle.lk_link.specs.Alignments.{is_alignment};
ghost use Rattle.lk_link.specs.Rules.{falls, has_primary, is_good_section, is_primary};
ghost use Rattle.lk_check.specs.FirstAnswer.{first_bad};
ghost use Rattle.lk_check.specs.FirstFault.{first_place};

use lk_link::alignment::is_valid;
use lk_link::fault::Place;
use lk_link::ids::OutputSectionId;
use lk_link::limits::ATTRIBUTE_SETS;
use lk_link::link::LinkInput;
use lk_link::plan::{PlanPart, PlanSection, PlanSections};

/// The first section that isn't good.
#[tactic(auto, unfolding(crate::specs::FirstFault::first_place))]
pub fn first_place(link: &LinkInput) -> Option<Place>
    ensures { result ≡ first_place link.now rule.Sections }
{
    Some(Place::Section(first_bad_section(&link.plan.sections)?))
}

/// The same, by its number.
fn first_bad_section(sections: &PlanSections) -> Option<usize>
    ensures { result ≡ first_bad (is_good_section sections.now) sections.now }
{
    sections
        .as_slice()
        .iter()
        .position(|section| !is_good_section(sections, section))
}

/// Whether a section has parts, whose alignments are powers of two up to 65,536 and fall, as its own is one, and
/// attributes below 32, and is secondary only to a section that isn't.
fn is_good_section(sections: &PlanSections, section: &PlanSection) -> bool
    ensures { result ≡ is_good_section sections.now section.now }
{
    !section.parts.is_empty()
        && is_valid(section.align)
        && are_alignments(section.parts.as_slice())
        && falls(section.parts.as_slice())
        && section.attrs < ATTRIBUTE_SETS
        && has_primary(sections, section)
}

/// Whether all parts' alignments are powers of two up to 65,536.
fn are_alignments(parts: &[PlanPart]) -> bool
    ensures { result ≡ list_all (λ p. is_alignment p.alignment) parts.now }
{
    parts.iter().all(|part| is_valid(part.alignment))
}

/// Whether alignments fall strictly.
fn falls(parts: &[PlanPart]) -> bool
    ensures { result ≡ falls parts.now }
{
    fall_to(parts, &parts[parts.len().min(1)..])
}

/// Whether the alignment of each part is above that of the one at its place among the next ones.
fn fall_to(parts: &[PlanPart], next: &[PlanPart]) -> bool
    ensures { result ≡ list_all (λ p. nat_lt p.1.alignment p.0.alignment) (zip parts.now next.now) }
{
    parts
        .iter()
        .zip(next.iter())
        .all(|(part, next)| next.alignment < part.alignment)
}

/// Whether a section that is secondary is so to one that isn't.
fn has_primary(sections: &PlanSections, section: &PlanSection) -> bool
    ensures { result ≡ has_primary sections.now section.now }
{
    match section.primary {
        None => true,
        Some(primary) => is_primary(sections, primary),
    }
}

/// Whether there is such a section, and it isn't secondary.
fn is_primary(sections: &PlanSections, section: OutputSectionId) -> bool
    ensures { result ≡ is_primary sections.now section }
{
    match sections.get(section) {
        None => false,
        Some(section) => section.primary.is_none(),
    }
}
