//! What the record of a segment holds: laws, each proved as the contract of a function that does nothing.

ghost use Rattle.lk_place_laws.specs.SegmentHulls.{PlainSegmentsHoldSections, SegmentsFit};

/// A law: where no event is refused, and the stack has 64 bits, what a segment spans ends below 2^64, in the file and in memory.
pub fn segments_fit()
    ensures { SegmentsFit }
{}

/// A law: under a plain plan, a load segment holds each section inside that has bytes in the file, and starts as far from it in memory
/// as in the file.
pub fn plain_segments_hold_sections()
    ensures { PlainSegmentsHoldSections }
{}
