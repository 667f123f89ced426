//! What sections span is apart: laws, each proved as the contract of a function that does nothing.

ghost use Rattle.lk_place_laws.specs.SectionRanges.{FileBytesAreBacked, FileSectionsAreApart, FileSectionsRise, PlainMemorySectionsAreApart, PlainMemorySectionsRise, SectionsFit};

/// A law: where no event is refused, any two output sections are apart in the file by what they span, whatever the plan.
pub fn file_sections_are_apart()
    ensures { FileSectionsAreApart }
{}

/// A law: under a plain plan, any two that have memory are apart there.
pub fn plain_memory_sections_are_apart()
    ensures { PlainMemorySectionsAreApart }
{}

/// A law: where no event is refused, a section stands in the file behind all that earlier events place, whatever the plan.
pub fn file_sections_rise()
    ensures { FileSectionsRise }
{}

/// A law: under a plain plan, one that has memory stands there behind all with memory that earlier events place.
pub fn plain_memory_sections_rise()
    ensures { PlainMemorySectionsRise }
{}

/// A law: where no event is refused, what a section spans ends below 2^64, in the file and in memory.
pub fn sections_fit()
    ensures { SectionsFit }
{}

/// A law: there one that spans bytes of the file takes bytes of the file, and has bytes in memory.
pub fn file_bytes_are_backed()
    ensures { FileBytesAreBacked }
{}
