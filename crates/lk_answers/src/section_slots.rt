//! What became of the input sections of a file, with the sizes that they end with.

ghost use Rattle.std.specs.Prelude.{◌≡◌};
ghost use Rattle.lk_answers.specs.SectionSlots.{slot_left};

use lk_deltas::{RelaxDeltaMap, opt_input_to_output};
use lk_link::marks::is_marked;
use lk_link::{InputSection, LinkInput, SectionSlot};
use lk_live::slot_after;
use std::marker::Model;

/// What became of the sections of a file, by index, lent by a layout (libwild: the slots of `ObjectLayout`). Contracts see the sections with
/// what tells that.
#[derive(Drop)]
pub struct SectionSlots<'a> {
    pub(crate) link: &'a LinkInput,
    pub(crate) sections: &'a [InputSection],
    /// The marks of live input sections, from the file's first on, and perhaps more.
    pub(crate) marks: &'a [bool],
    /// What is deleted of the sections; with none, nothing is.
    pub(crate) deleted: Option<&'a RelaxDeltaMap>,
}

impl<'a> Model for SectionSlots<'a> {
    ghost use Rattle.std.specs.Option.{option_copied};
    ghost use Rattle.lk_answers.specs.SectionSlots.{SlotsRecord};
    ghost use Rattle.std.specs.Coded.{codes};
    ghost use Rattle.lk_link.specs.contracts.link.LinkInput as link_input;

    ghost Value = { SlotsRecord };

    ghost coded = { Prim.hlevel (codes, link_input.the_row.coded) };

    ghost view = { λ a. record { link = a.link.now; sections = a.sections.now; marks = a.marks.now; deleted = option_copied a.deleted } };
}

impl SectionSlots<'_> {
    ghost use Rattle.std.specs.Prelude.{length};

    /// How many sections the file has.
    pub fn len(&self) -> usize
        ensures { result ≡ length self.now.sections }
    {
        self.sections.len()
    }

    /// What became of the section with this index, if there is one: with its size without what relaxation deleted. Takes logarithmic time.
    pub fn get(&self, index: u32) -> Option<SectionSlot>
        ensures { result ≡ slot_left self.now index }
    {
        let section = self.sections.get(index as usize)?;
        let size = match self.deleted {
            Some(deleted) => opt_input_to_output(deleted.get(index), section.size),
            None => section.size,
        };
        let live = is_marked(self.marks, index as usize);
        Some(slot_after(self.link, live, section, size))
    }
}
