//! Laws on numbers, and on well-formed links.

ghost use Rattle.std.specs.Prelude.{◌≡◌};
ghost use Rattle.std.specs.Ordering.{nat_cmp};
ghost use Rattle.lk_link.specs.Files.{file_cmp};
ghost use Rattle.lk_link.specs.InputLaws.{CandidatesAreGood, DataAreWhole, InputsAreGood, InputsGoToParts, InputListsAreFew, TablesAreThere};
ghost use Rattle.lk_link.specs.Laws.{ExpressionsAreGood, OptionsAreGood, PartFieldsAreGood, PartsAreAligned, SectionsAreGood, PrimariesAreOthers, SingletonsAreGood, EventsStandOnce, ListsAreFew};
ghost use Rattle.lk_link.specs.SymbolLaws.{SymbolsAreGood, NumberedSymbolsAreGood, DefinitionsStandForThemselves};

use crate::alignment::Alignment;
use crate::ids::{FileId, OutputSectionId, PartId, RegionId, SegmentId, SymbolId};
use std::cmp::Ordering;

/// A law: files compare by group, then by their numbers there.
pub fn files_compare_by_group(a: FileId, b: FileId) -> Ordering
    ensures { result ≡ file_cmp a b }
{
    a.cmp(&b)
}

/// A law: alignments compare as their values.
pub fn alignments_compare_as_values(a: Alignment, b: Alignment) -> Ordering
    ensures { result ≡ nat_cmp a b }
{
    a.cmp(&b)
}

/// A law: parts compare as their numbers.
pub fn parts_compare_as_numbers(a: PartId, b: PartId) -> Ordering
    ensures { result ≡ nat_cmp a b }
{
    a.cmp(&b)
}

/// A law: output sections compare as their numbers.
pub fn sections_compare_as_numbers(a: OutputSectionId, b: OutputSectionId) -> Ordering
    ensures { result ≡ nat_cmp a b }
{
    a.cmp(&b)
}

/// A law: segments compare as their numbers.
pub fn segments_compare_as_numbers(a: SegmentId, b: SegmentId) -> Ordering
    ensures { result ≡ nat_cmp a b }
{
    a.cmp(&b)
}

/// A law: regions compare as their numbers.
pub fn regions_compare_as_numbers(a: RegionId, b: RegionId) -> Ordering
    ensures { result ≡ nat_cmp a b }
{
    a.cmp(&b)
}

/// A law: symbols compare as their numbers.
pub fn symbols_compare_as_numbers(a: SymbolId, b: SymbolId) -> Ordering
    ensures { result ≡ nat_cmp a b }
{
    a.cmp(&b)
}

/// A law: the options of a well-formed link are in their ranges, and the entry is one of its symbols.
pub fn options_are_good()
    ensures { OptionsAreGood }
{}

/// A law: the parts of a well-formed link have alignments, from 1 to 65,536.
pub fn parts_are_aligned()
    ensures { PartsAreAligned }
{}

/// A law: a section of a well-formed link has parts, whose alignments fall, and they stand among all parts from its first part on.
pub fn sections_are_good()
    ensures { SectionsAreGood }
{}

/// A law: a section of a well-formed link is secondary only to another one, which isn't secondary.
pub fn primaries_are_others()
    ensures { PrimariesAreOthers }
{}

/// A law: the parts that the plan of a well-formed link names are there; table parts differ from each other and from the
/// comment's and the primary part.
pub fn part_fields_are_good()
    ensures { PartFieldsAreGood }
{}

/// A law: the section of singletons of a well-formed link is one of its plan's, and its output is partial.
pub fn singletons_are_good()
    ensures { SingletonsAreGood }
{}

/// A law: the events of a well-formed link name what is there, each of them once.
pub fn events_stand_once()
    ensures { EventsStandOnce }
{}

/// A law: what the expressions of a well-formed link name is there, and they are at most 100 deep.
pub fn expressions_are_good()
    ensures { ExpressionsAreGood }
{}

/// A law: a symbol of a well-formed link is placed as its kind of file does, and what it names is there.
pub fn symbols_are_good()
    ensures { SymbolsAreGood }
{}

/// A law: so is the symbol with a number over all files, which stands in some file.
pub fn numbered_symbols_are_good()
    ensures { NumberedSymbolsAreGood }
{}

/// A law: what stands for a symbol of a well-formed link stands for itself.
pub fn definitions_stand_for_themselves()
    ensures { DefinitionsStandForThemselves }
{}

/// A law: an input section of a well-formed link that isn't discarded fits its part, and what it names is there.
pub fn inputs_are_good()
    ensures { InputsAreGood }
{}

/// A law: the input sections of a well-formed link that aren't discarded go to parts of its plan.
pub fn inputs_go_to_parts()
    ensures { InputsGoToParts }
{}

/// A law: an input section of a well-formed link has at most 16,777,216 relocations, and as many relaxations.
pub fn input_lists_are_few()
    ensures { InputListsAreFew }
{}

/// A law: the plan of a well-formed link gives the parts of the tables that relocations want entries of, those of
/// discarded sections among them.
pub fn tables_are_there()
    ensures { TablesAreThere }
{}

/// A law: a candidate of a well-formed link is a section of an object, for an output section that is there.
pub fn candidates_are_good()
    ensures { CandidatesAreGood }
{}

/// A law: data that are given for an input section of a well-formed link that isn't merged are as many bytes as its size.
pub fn data_are_whole()
    ensures { DataAreWhole }
{}

/// A law: the lists of a well-formed link are within the limits.
pub fn lists_are_few()
    ensures { ListsAreFew }
{}
