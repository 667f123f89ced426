//! Laws of edges, each proved as the contract of a function that does nothing.

ghost use Rattle.lk_own_symbols.specs.EdgeLaws.{OthersAreNoRedirects, SegmentsEndBelow};

/// A law: the thread-local one among segments that aren't refused ends below 2^64, as edges want it.
pub fn segments_end_below()
    ensures { SegmentsEndBelow }
{}

/// A law: a symbol of a file whose redirects aren't evaluated is none that is.
pub fn others_are_no_redirects()
    ensures { OthersAreNoRedirects }
{}
