//! How far memory stands from the file: laws, each proved as the contract of a function that does nothing.

ghost use Rattle.lk_place_laws.specs.Distance.{PlainBackedSectionsKeepDistance, PlainMemoryKeepsDistance, PlainSectionsKeepDistance};

/// A law: under a plain plan, memory starts equally far from the file at all parts of a load segment that have bytes in the file.
pub fn plain_memory_keeps_distance()
    ensures { PlainMemoryKeepsDistance }
{}

/// A law: so it does at all output sections of a load segment that have bytes in the file, by what their parts span.
pub fn plain_sections_keep_distance()
    ensures { PlainSectionsKeepDistance }
{}

/// A law: and so it does, where no event is refused, at all of them that take bytes of the file, with or without any.
pub fn plain_backed_sections_keep_distance()
    ensures { PlainBackedSectionsKeepDistance }
{}
