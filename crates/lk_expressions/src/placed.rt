//! The records that expressions read while sections are placed.

use crate::known::item;
use crate::record::OutputRecordLayout;
use lk_link::ids::{OutputSectionId, PartId};

/// Sections and parts that are placed.
pub trait PlacedRecords {
    ghost use Rattle.std.specs.Prelude.{◌≡◌, ℕ, Option};
    ghost use Rattle.lk_expressions.specs.Records.{Record};

    /// The record of a section, if it is placed.
    ghost section_of: { Self → ℕ → Option Record };
    /// The record of a part, if it is placed.
    ghost part_of: { Self → ℕ → Option Record };

    /// The record of a section, if it is placed.
    fn section(&self, section: OutputSectionId) -> Option<OutputRecordLayout>
        ensures { result ≡ section_of self.now section };

    /// The record of a part, if it is placed.
    fn part(&self, part: PartId) -> Option<OutputRecordLayout>
        ensures { result ≡ part_of self.now part };
}

/// Records that are given, none where not placed.
#[derive(Drop)]
pub struct GivenRecords<'a> {
    /// Of each output section, by number, its record, if it is placed.
    pub sections: &'a [Option<OutputRecordLayout>],
    /// Of each part, by number over all sections, its record, if it is placed.
    pub parts: &'a [Option<OutputRecordLayout>],
}

impl PlacedRecords for GivenRecords<'_> {
    ghost use Rattle.std.specs.Prelude.{slice_get};
    ghost use Rattle.lk_expressions.specs.Surroundings.{flat};

    ghost section_of = { λ given s. flat (slice_get given.sections.now s) };

    ghost part_of = { λ given p. flat (slice_get given.parts.now p) };

    fn section(&self, section: OutputSectionId) -> Option<OutputRecordLayout> {
        item(self.sections, section.as_usize())
    }

    fn part(&self, part: PartId) -> Option<OutputRecordLayout> {
        item(self.parts, part.as_usize())
    }
}
