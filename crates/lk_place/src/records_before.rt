//! The records that expressions read in the walk.

ghost use Rattle.std.specs.Prelude.{◌≡◌, slice_get};
ghost use Rattle.lk_place.specs.Tables.{is_before};

use crate::hulls::hull_of;
use lk_expressions::{OutputRecordLayout, PlacedRecords};
use lk_link::ids::{OutputSectionId, PartId};
use lk_link::plan::PlanSections;

/// The records of what is placed before an event.
#[derive(Drop)]
pub(crate) struct RecordsBefore<'a> {
    pub(crate) sections: &'a PlanSections,
    /// By part: the event that places it.
    pub(crate) events: &'a [usize],
    /// By part: its record, if it is placed.
    pub(crate) records: &'a [OutputRecordLayout],
    /// The event.
    pub(crate) event: usize,
}

impl RecordsBefore<'_> {
    /// Whether the part with this number is placed before the event.
    fn is_placed(&self, part: usize) -> bool
        ensures { result ≡ is_before self.now.events.now self.now.event part }
    {
        match self.events.get(part) {
            Some(event) => *event < self.event,
            None => false,
        }
    }
}

impl PlacedRecords for RecordsBefore<'_> {
    ghost use Rattle.lk_place.specs.Tables.{part_before, section_before};

    ghost section_of = { λ before s. section_before before.sections.now before.events.now before.records.now before.event s };

    ghost part_of = { λ before p. part_before before.events.now before.records.now before.event p };

    #[tactic(auto, using(lk_link::proofs::PartNumbers::part_numbers))]
    fn section(&self, section: OutputSectionId) -> Option<OutputRecordLayout> {
        if section.as_usize() >= self.sections.len() {
            return None;
        }
        let (first, behind) = self.sections.part_range(section.as_usize());
        if behind <= self.records.len() && self.is_placed(first) {
            Some(hull_of(&self.records[first..behind]))
        } else {
            None
        }
    }

    fn part(&self, part: PartId) -> Option<OutputRecordLayout> {
        if self.is_placed(part.as_usize()) {
            match self.records.get(part.as_usize()) {
                Some(found) => Some(*found),
                None => None,
            }
        } else {
            None
        }
    }
}
