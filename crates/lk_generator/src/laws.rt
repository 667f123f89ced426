//! Laws on generated links, each proved as the contract of a function that does nothing.

ghost use Rattle.lk_generator.specs.Laws.{GeneratedLinksAreWellFormed};

/// A law: a link of 1 to 100,000 objects is well formed, whatever its seed.
pub fn generated_links_are_well_formed()
    ensures { GeneratedLinksAreWellFormed }
{}
