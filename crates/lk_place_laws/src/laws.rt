//! Laws of placement, each proved as the contract of a function that does nothing.

ghost use Rattle.lk_place_laws.specs.Base.{MemoryLeavesRoom};
ghost use Rattle.lk_place_laws.specs.Laws.{InsideIsPlaced, MemoryRangesAreDisjoint, OneLoadSegmentIsPlain};
ghost use Rattle.lk_place_laws.specs.Laws.{PlainMemoryIsCongruent, PlainMemoryIsDisjoint, RecordsKeepAlignments};
ghost use Rattle.lk_place_laws.specs.PlacementLaws.{LoadsGoByWhatStands, PartsTakeFileBytes, RefusedExactlyPast};

/// A law: a section that is placed from some cursors on overflows there exactly where one of its parts ends past 2^64 - 1.
pub fn refused_exactly_past()
    ensures { RefusedExactlyPast }
{}

/// A law: where no event is refused, the record of each part takes exactly the part's bytes in the file, if its section's bytes stand
/// there, else none.
pub fn parts_take_file_bytes()
    ensures { PartsTakeFileBytes }
{}

/// A law: the load address of a section is the value of its expression by all that stands behind it, the section itself with it, and
/// by the cursors there; so is its refusal.
pub fn loads_go_by_what_stands()
    ensures { LoadsGoByWhatStands }
{}

/// A law: in whole output, where nothing moves the location and no section stands in a region, no two parts of sections that have
/// memory share an address, also where an event is refused.
pub fn memory_ranges_are_disjoint()
    ensures { MemoryRangesAreDisjoint }
{}

/// A law: under a plain plan, no two parts of sections that have memory share an address.
pub fn plain_memory_is_disjoint()
    ensures { PlainMemoryIsDisjoint }
{}

/// A law: under a plain plan, a part with bytes in the file, inside a load segment, starts at the same place in memory and in
/// the file, modulo the segment's place alignment.
pub fn plain_memory_is_congruent()
    ensures { PlainMemoryIsCongruent }
{}

/// A law: where no event is refused, a section's record has the greatest alignment of the section, and the records of the
/// sections inside a segment give its place alignment.
pub fn records_keep_alignments()
    ensures { RecordsKeepAlignments }
{}

/// A law: a section is one of those inside a segment exactly where an event places it while the segment is open.
pub fn inside_is_placed()
    ensures { InsideIsPlaced }
{}

/// A law: a plan with one load segment is plain, if its events are in order and place sections alone, and its sections have
/// memory and take bytes of the file.
pub fn one_load_segment_is_plain()
    ensures { OneLoadSegmentIsPlain }
{}

/// A law: where headers are to stand below the base and have room there, memory begins at the last page that leaves it to them.
pub fn memory_leaves_room()
    ensures { MemoryLeavesRoom }
{}
