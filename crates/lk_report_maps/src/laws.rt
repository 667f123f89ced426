//! Laws on reports as maps, each proved as the contract of a function that does nothing.

ghost use Rattle.lk_report_maps.specs.GoodReports.{PlainReportsAreGood};
ghost use Rattle.lk_report_maps.specs.Laws.{DefinedLayoutsAreWhole, DefinedReportsAreRead, ReportsAreMaps, ReportsAreRead};

use lk_layout::laws::laid_out_links_are_well_formed;
use lk_place_laws::section_ranges::{
    file_sections_are_apart, plain_memory_sections_are_apart, sections_fit,
};
use lk_place_laws::segment_hulls::{plain_segments_hold_sections, segments_fit};
use lk_relax::laws::relaxed_stands;
use lk_soundness::laws::defined_layouts_are_sound;

/// A law: a report whose numbers are below 2^64 is the map of what it says, line by line.
pub fn reports_are_maps()
    ensures { ReportsAreMaps }
{}

/// A law: the report of a whole layout says the layout's own sections and segments, each in its line.
pub fn reports_are_read()
    ensures { ReportsAreRead }
{}

/// A law: every defined layout is whole, on a lawful machine.
pub fn defined_layouts_are_whole()
    ensures { DefinedLayoutsAreWhole }
{
    defined_layouts_are_sound();
}

/// A law: so the report of a defined layout says the layout's own sections and segments.
pub fn defined_reports_are_read()
    ensures { DefinedReportsAreRead }
{
    reports_are_read();
    defined_layouts_are_whole();
}

/// A law: under a plain plan, what the report of a defined layout tells of sections and segments is good, where no section is secondary,
/// each that is allocated and has bytes in the file stands in a load segment that is told, and the stack has 64 bits.
pub fn plain_reports_are_good()
    ensures { PlainReportsAreGood }
{
    defined_layouts_are_sound();
    laid_out_links_are_well_formed();
    relaxed_stands();
    file_sections_are_apart();
    plain_memory_sections_are_apart();
    sections_fit();
    segments_fit();
    plain_segments_hold_sections();
}
