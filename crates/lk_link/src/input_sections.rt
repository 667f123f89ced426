//! The sections of a file. The numbers of those that are in section groups are kept by group, so that no caller looks
//! through all sections for a group's members.

ghost use Rattle.std.specs.Prelude.{◌≡◌, ◌==◌, ◌++◌, ℕ, [], IfOk, OnOk, length, slice_get, option_map};
ghost use Rattle.std.specs.Option.{option_copied, option_to_list};
ghost use Rattle.lk_link.specs.Numbered.{items_of};
ghost use Rattle.lk_link.specs.SectionGroups.{group_members, GroupMembersRise};

use crate::by_number::ByNumber;
use crate::list::List;
use crate::section::InputSection;
use std::alloc::{AllocError, Global};
use std::marker::Model;

/// The sections of a file, with an index of their groups. Contracts see the sections alone.
#[derive(Drop)]
pub struct InputSections {
    sections: List<InputSection>,
    /// The numbers of the sections that are in a group, by the group.
    members: ByNumber<usize>,
}

impl Model for InputSections {
    ghost use Rattle.std.specs.Prelude.{List};
    ghost use Rattle.lk_link.specs.declared.section.InputSection.{InputSection};

    ghost Value = { List InputSection };

    ghost use Rattle.lk_link.specs.SectionGroups.{IsGroupIndex};

    ghost view = { λ a. a.sections };

    ghost invariant = { λ a. IsGroupIndex a.sections a.members };
}

impl InputSections {
    /// No sections; takes no memory.
    pub fn empty(alloc: Global) -> InputSections
        ensures { result ≡ [] }
    {
        InputSections {
            sections: List::new(alloc),
            members: ByNumber::empty(alloc),
        }
    }

    /// Makes the index of the sections.
    pub fn new(alloc: Global, sections: List<InputSection>) -> Result<InputSections, AllocError>
        ensures { IfOk result (λ all. all ≡ sections) }
    {
        let members = ByNumber::new(alloc, grouped(alloc, sections.as_slice())?)?;
        Ok(InputSections { sections, members })
    }

    /// All sections, lent.
    pub fn as_slice(&self) -> &[InputSection]
        ensures { result.now ≡ self.now }
    {
        self.sections.as_slice()
    }

    /// How many sections there are.
    pub fn len(&self) -> usize
        ensures { result ≡ length self.now }
    {
        self.sections.len()
    }

    /// Whether there are none.
    pub fn is_empty(&self) -> bool
        ensures { result ≡ (length self.now == 0) }
    {
        self.sections.is_empty()
    }

    /// The section with this number in the file, if there is one.
    pub fn get(&self, index: usize) -> Option<&InputSection>
        ensures { option_copied result ≡ slice_get self.now index }
    {
        self.sections.get(index)
    }

    /// The numbers of the sections in a group of the file, in rising order; none where there is no such group. Takes
    /// logarithmic time.
    pub fn members(&self, group: u32) -> &[usize]
        ensures { result.now ≡ group_members self.now group }
    {
        self.members.of(group)
    }
}

/// A law: the members of a group are the sections with its number, each once, in rising order.
pub fn group_members_rise()
    ensures { GroupMembersRise }
{}

/// The sections that are in a group: the group and the section's number.
fn grouped(alloc: Global, sections: &[InputSection]) -> Result<Vec<(u32, usize)>, AllocError>
    ensures { IfOk result (λ all. (group : ℕ) → items_of group all.items ≡ group_members sections.now group) }
{
    let mut pairs = Vec::new(alloc);
    for (index, section) in sections.iter().enumerate() {
        push_member(&mut pairs, index, section.group)?;
    }
    Ok(pairs)
}

/// Adds a section if it is in a group.
fn push_member(
    pairs: &mut Vec<(u32, usize)>,
    index: usize,
    group: Option<u32>,
) -> Result<(), AllocError>
    ensures { OnOk result (pairs.new.items ≡ pairs.old.items ++ option_to_list (option_map (λ (g : ℕ). (g, index)) group)) }
{
    if let Some(group) = group {
        pairs.push((group, index))?;
    }
    Ok(())
}
