//! The rule on candidates: the first file that has one that isn't a section of an object.

ghost use Rattle.std.specs.Prelude.{◌≡◌, false};
ghost use Rattle.std.specs.Option.{option_map_or};
ghost use Rattle.lk_link.specs.declared.fault.Rule.TheVariants as rule;
ghost use Rattle.lk_link.specs.CandidateRules.{has_good_candidates, is_good_candidate, is_section_of_object};
ghost use Rattle.lk_link.specs.Files.{AreNumbered, file_in};
ghost use Rattle.lk_check.specs.FirstFault.{first_place};

use lk_link::fault::Place;
use lk_link::file::{Candidate, InputFile};
use lk_link::link::LinkInput;

/// The first file with a candidate that isn't good: one whose output section isn't there, or which is no section of an object.
#[tactic(auto, unfolding(crate::specs::FirstFault::first_place))]
pub fn first_place(link: &LinkInput) -> Option<Place>
    requires { AreNumbered link.now.groups }
    ensures { result ≡ first_place link.now rule.Candidates }
{
    for at in link.groups.files() {
        if !has_good_candidates(link, at.file) {
            return Some(Place::File(at.id));
        }
    }
    None
}

/// Whether all candidates of a file are good.
pub fn has_good_candidates(link: &LinkInput, file: &InputFile) -> bool
    ensures { result ≡ has_good_candidates link.now file.now }
{
    file.candidates
        .as_slice()
        .iter()
        .all(|candidate| is_good_candidate(link, *candidate))
}

/// Whether a candidate's output section is there, and it is a section of an object.
fn is_good_candidate(link: &LinkInput, candidate: Candidate) -> bool
    ensures { result ≡ is_good_candidate link.now candidate }
{
    candidate.output.as_usize() < link.plan.sections.len() && is_section_there(link, candidate)
}

/// Whether it is a section of an object.
fn is_section_there(link: &LinkInput, candidate: Candidate) -> bool
    ensures { result ≡ option_map_or (is_section_of_object candidate.index) (file_in link.now.groups candidate.file) false }
{
    match link.groups.file(candidate.file) {
        None => false,
        Some(file) => is_section_of_object(file, candidate.index),
    }
}

/// Whether a file is an object and has a section with this index.
fn is_section_of_object(file: &InputFile, index: u32) -> bool
    ensures { result ≡ is_section_of_object index file.now }
{
    file.kind.is_object() && (index as usize) < file.sections.len()
}
