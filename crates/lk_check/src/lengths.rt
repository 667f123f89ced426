//! The first input section with a list that is too long.

ghost use Rattle.std.specs.Prelude.{◌≡◌};
ghost use Rattle.std.specs.List.{flat_map};
ghost use Rattle.lk_link.specs.Limits.{all_sections, first_length_past};
ghost use Rattle.lk_check.specs.Lengths.{list_length, long_list, sections_of};

use lk_link::file::InputFile;
use lk_link::list::List;
use lk_link::section::InputSection;

/// A list that each input section has.
#[derive(Clone, Copy)]
pub enum SectionList {
    Relocations,
    Relaxations,
}

/// The length of the first section's list that is longer than `most`, group by group and file by file; 0 where none is.
#[tactic(auto, unfolding(crate::specs::Lengths::long_list))]
pub fn first_length_past(most: u64, list: SectionList, groups: &[List<InputFile>]) -> u64
    ensures { result ≡ first_length_past most (list_length list) (all_sections groups.now) }
{
    long_list_of_groups(most, list, groups).unwrap_or(0)
}

/// The length of that list, if there is one.
#[tactic(auto, using(crate::proofs::LongLists::group_steps))]
fn long_list_of_groups(most: u64, list: SectionList, groups: &[List<InputFile>]) -> Option<u64>
    ensures { result ≡ long_list most list (all_sections groups.now) }
{
    for files in groups {
        if let Some(length) = long_list_of_files(most, list, files.as_slice()) {
            return Some(length);
        }
    }
    None
}

/// The same in one group.
#[tactic(auto, using(crate::proofs::LongLists::file_steps))]
pub fn long_list_of_files(most: u64, list: SectionList, files: &[InputFile]) -> Option<u64>
    ensures { result ≡ long_list most list (sections_of files.now) }
{
    for file in files {
        if let Some(length) = long_list(most, list, file.sections.as_slice()) {
            return Some(length);
        }
    }
    None
}

/// The same among some sections.
#[tactic(auto, using(crate::proofs::LongLists::section_steps))]
fn long_list(most: u64, list: SectionList, sections: &[InputSection]) -> Option<u64>
    ensures { result ≡ long_list most list sections.now }
{
    for section in sections {
        let length = list_length(list, section);
        if most < length {
            return Some(length);
        }
    }
    None
}

/// The length of a section's list.
fn list_length(list: SectionList, section: &InputSection) -> u64
    ensures { result ≡ list_length list section.now }
{
    match list {
        SectionList::Relocations => section.relocs.len() as u64,
        SectionList::Relaxations => section.relax.len() as u64,
    }
}
