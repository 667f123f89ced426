//! The rule on data: the first section for which other data are given than its size says.

ghost use Rattle.std.specs.Prelude.{◌≡◌, not, position};
ghost use Rattle.lk_link.specs.declared.fault.Rule.TheVariants as rule;
ghost use Rattle.lk_link.specs.DataRules.{has_whole_data};
ghost use Rattle.lk_link.specs.Files.{AreNumbered};
ghost use Rattle.lk_check.specs.FirstBadFile.{first_bad_in_files};
ghost use Rattle.lk_check.specs.FirstFault.{first_place};

use lk_link::fault::Place;
use lk_link::file::InputFile;
use lk_link::ids::FileId;
use lk_link::link::LinkInput;
use lk_link::section::InputSection;

/// The first section that isn't merged whose data are given, and aren't as many bytes as its size, also where it is discarded.
#[tactic(auto, unfolding(crate::specs::FirstFault::first_place))]
pub fn first_place(link: &LinkInput) -> Option<Place>
    requires { AreNumbered link.now.groups }
    ensures { result ≡ first_place link.now rule.Data }
{
    let (id, section) = first_bad_data(link)?;
    Some(Place::Input(id, section))
}

/// The same, by its file and its index there.
#[tactic(auto, using(crate::proofs::First::walks))]
fn first_bad_data(link: &LinkInput) -> Option<(FileId, usize)>
    requires { AreNumbered link.now.groups }
    ensures { result ≡ first_bad_in_files (λ f. f.sections) (λ f. has_whole_data) link.now.groups }
{
    for at in link.groups.files() {
        if let Some(section) = bad_section(at.file) {
            return Some((at.id, section));
        }
    }
    None
}

/// The first such section of a file.
fn bad_section(file: &InputFile) -> Option<usize>
    ensures { result ≡ position (λ s. not (has_whole_data s)) file.now.sections }
{
    file.sections
        .as_slice()
        .iter()
        .position(|section| !has_whole_data(section))
}

/// Whether data that are given for a section are as many bytes as its size, unless it is merged.
pub fn has_whole_data(section: &InputSection) -> bool
    ensures { result ≡ has_whole_data section.now }
{
    !section.given || section.slot.is_merge() || section.bytes.len() as u64 == section.size
}
