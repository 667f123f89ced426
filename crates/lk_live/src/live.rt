//! Which input sections are live, and a walk over them.

ghost use Rattle.std.specs.Prelude.{◌≡◌};
ghost use Rattle.std.specs.Iterator.{YieldsFirstBy, item_count};
ghost use Rattle.lk_link.specs.Files.{AreNumbered};
ghost use Rattle.lk_link.specs.WellFormed.{IsWellFormed};
ghost use Rattle.lk_live.specs.Reach.{live_inputs};
ghost use Rattle.lk_live.specs.Slots.{is_singleton, live_slot, loaded_slot, sized_slot};

use lk_link::marks::is_marked;
use lk_link::{
    FileId, InputRef, InputSection, InputSlot, Inputs, LinkInput, List, Section, SectionSlot,
    UnloadedSection, ValueFlags,
};
use std::marker::Model;

/// What is live of a link (libwild: the slots of `GraphResources`).
#[derive(Drop)]
pub struct Live {
    /// For each input section, by its number over all files, whether it is live.
    pub marks: List<bool>,
    /// For each symbol its flags: those handed in, and those that roots and reached units set.
    pub flags: List<ValueFlags>,
    /// For each output section whether a live section without bytes keeps it, or a redirect that is reached.
    pub kept: List<bool>,
}

impl Live {
    /// The live input sections of the link, by group, file and index. A walk over all of them looks at each input section
    /// once.
    pub fn inputs<'a>(&'a self, link: &'a LinkInput) -> LiveInputs<'a>
        requires { AreNumbered link.now.groups }
        ensures { result ≡ live_inputs link.now self.now }
    {
        LiveInputs::new(self.marks.as_slice(), link.groups.inputs())
    }

    /// What became of the input section of a file with this index, if there is one. Takes constant time (libwild:
    /// `SectionSlot`).
    pub fn slot(&self, link: &LinkInput, file: FileId, index: usize) -> Option<SectionSlot>
        requires { IsWellFormed link.now }
        ensures { result ≡ live_slot link.now self.now file index }
    {
        let section = link.groups.file(file)?.sections.get(index)?;
        let number = link.groups.input_start(file)? + index;
        let live = is_marked(self.marks.as_slice(), number);
        Some(slot_after(link, live, section, section.size))
    }
}

/// What becomes of a section, which is live or isn't, and is so many bytes long.
pub fn slot_after(link: &LinkInput, live: bool, section: &InputSection, size: u64) -> SectionSlot
    ensures { result ≡ sized_slot link.now live section.now size }
{
    let kept = Section { size };
    let waiting = UnloadedSection {
        needs_sorting: section.sorted,
    };
    match section.slot {
        InputSlot::Discard => SectionSlot::Discard,
        InputSlot::Merge => SectionSlot::MergeStrings,
        InputSlot::Unloaded if !live => SectionSlot::Unloaded(waiting),
        InputSlot::MustLoad if !live => SectionSlot::MustLoad(waiting),
        InputSlot::DebugInfo if !live => SectionSlot::UnloadedDebugInfo { must_load: false },
        InputSlot::MustLoadDebugInfo if !live => SectionSlot::UnloadedDebugInfo { must_load: true },
        InputSlot::DebugInfo | InputSlot::MustLoadDebugInfo => SectionSlot::LoadedDebugInfo(kept),
        InputSlot::Unloaded | InputSlot::MustLoad => loaded_slot(link, section, kept),
    }
}

/// What becomes of a section that is loaded for what it holds.
fn loaded_slot(link: &LinkInput, section: &InputSection, kept: Section) -> SectionSlot
    ensures { result ≡ loaded_slot link.now (record section.now { size = kept.size }) }
{
    if is_singleton(link, section) {
        SectionSlot::PartialLinkSingleton(kept)
    } else if section.sorted {
        SectionSlot::Sorted(kept)
    } else {
        SectionSlot::Loaded(kept)
    }
}

/// Whether a section stays an output section of its own: in partial output one in the section of the singletons.
pub fn is_singleton(link: &LinkInput, section: &InputSection) -> bool
    ensures { result ≡ is_singleton link.now section.now }
{
    link.options.output.is_partial() && link.plan.is_singleton_part(section.part)
}

/// The live input sections that are left of a walk over them. Contracts see the list of them.
#[derive(Drop)]
pub struct LiveInputs<'a> {
    /// The marks of the input sections that are left.
    marks: &'a [bool],
    /// Those sections.
    inputs: Inputs<'a>,
}

impl<'a> Model for LiveInputs<'a> {
    ghost use Rattle.std.specs.Prelude.{List};
    ghost use Rattle.lk_link.specs.Inputs.{Input};

    ghost Value = { List Input };

    ghost use Rattle.lk_live.specs.Reach.{marked};

    ghost view = { λ a. marked a.marks.now a.inputs };
}

impl<'a> LiveInputs<'a> {
    ghost use Rattle.lk_live.specs.Reach.{marked};

    /// The walk over those of these sections that have a mark.
    pub(crate) fn new(marks: &'a [bool], inputs: Inputs<'a>) -> LiveInputs<'a>
        ensures { result ≡ marked marks.now inputs.entry }
    {
        LiveInputs { marks, inputs }
    }
}

impl<'a> Iterator for LiveInputs<'a> {
    type Item = InputRef<'a>;

    ghost use Rattle.lk_link.specs.Walks.{input_of};

    ghost next_gives = { YieldsFirstBy input_of (λ left. left) };

    ghost remaining = { item_count (λ left. left) };

    #[tactic(auto, using(crate::proofs::Marks::marked_none))]
    fn next(&mut self) -> Option<InputRef<'a>> {
        while let Some((mark, marks)) = self.marks.split_first() {
            self.marks = marks;
            let input = self.inputs.next()?;
            if *mark {
                return Some(input);
            }
        }
        None
    }
}
