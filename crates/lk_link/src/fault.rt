//! Why a description is refused before anything is laid out.

ghost use Rattle.std.specs.Prelude.{◌≡◌};

use crate::ids::FileId;
use std::fmt;

/// A list whose length is limited, or a number of bytes.
#[derive(Clone, Copy, Debug, PartialEq, Eq)]
pub enum Limited {
    Groups,
    Files,
    OutputSections,
    Parts,
    Segments,
    Regions,
    Events,
    /// Of all files.
    Symbols,
    /// Of all files.
    InputSections,
    /// Of all files.
    Candidates,
    /// Of one input section, the first that has too many.
    Relocations,
    /// Of one input section, the first that has too many.
    Relaxations,
    /// Of the names of symbols, output sections and input sections, one more for each.
    NameBytes,
    /// Of all merge sections, each rounded up to a multiple of 256.
    MergeBytes,
}

/// A rule that a link keeps.
#[derive(Clone, Copy, Debug, PartialEq, Eq)]
pub enum Rule {
    /// The numbers among the options are in their ranges, and the entry is a symbol.
    Options,
    /// The page is a power of two up to 65,536.
    Page,
    /// A section has parts, whose alignments are powers of two up to 65,536 and fall, as its own alignment is one; its
    /// attributes are below 32; it is secondary only to a section that isn't.
    Sections,
    /// Named parts are parts of the plan; table parts differ from each other and from those of the comment and of the
    /// primary code; the comment's part has alignment 1; the primary part isn't packed, has alignment at most 16, and is
    /// named only where branches are limited.
    PartFields,
    /// The section of singletons is one of the plan's, and is given only where output is partial.
    Singletons,
    /// At most one segment is for thread-local data.
    TlsSegment,
    /// Each section is placed once; each segment is opened once, and closed once after that; what an event names is
    /// there; only where a script is does the location counter move.
    Events,
    /// What an expression names is there, and it is at most 100 deep.
    Expressions,
    /// The first file of the first group is the prelude, and no other is.
    Prelude,
    /// What stands for a symbol stands for itself; its flags are below 64; its placement is one of those that its kind
    /// of file has, and what that names is there.
    Symbols,
    /// An input section that isn't discarded goes to a part of the plan that fits it; its attributes are among those
    /// for writing and for code; what its relocations and relaxations name is there.
    InputSections,
    /// Where a relocation wants an entry of the PLT or of the GOT, the plan gives that table's part.
    Tables,
    /// A candidate's output section is there, and it is a section of an object.
    Candidates,
    /// Data that are given for an input section that isn't merged are as many bytes as its size says.
    Data,
}

/// A place of the description.
#[derive(Clone, Copy, Debug, PartialEq, Eq)]
pub enum Place {
    Options,
    Plan,
    /// Where memory starts.
    Base,
    /// An output section.
    Section(usize),
    /// One of the parts that the plan names, by its place among them.
    PartField(usize),
    /// A part, numbered over all sections.
    Part(usize),
    Segment(usize),
    Region(usize),
    /// An event; the number of events for what is missing.
    Event(usize),
    File(FileId),
    /// A symbol, numbered over all files.
    Symbol(usize),
    /// An input section, by its index in its file.
    Input(FileId, usize),
}

/// Why a link isn't well formed.
#[derive(Clone, Copy, Debug, PartialEq, Eq)]
pub enum LinkFault {
    /// A list is too long; a count past 2^64 - 1 is given as that.
    TooMany {
        what: Limited,
        count: u64,
        limit: u64,
    },
    /// A rule is broken, first at this place.
    BadLink {
        rule: Rule,
        place: Place,
    },
}

/// What the limit speaks of, as `output sections`.
impl fmt::Display for Limited {
    ghost use Rattle.std.specs.Prelude.{Some};
    ghost use Rattle.lk_link.specs.Texts.{limited_text};

    ghost output = { λ what. Some (limited_text what) };

    fn fmt<W: fmt::Write>(&self, f: &mut fmt::Formatter<W>) -> fmt::Result {
        match self {
            Limited::Groups => write!(f, "groups"),
            Limited::Files => write!(f, "files"),
            Limited::OutputSections => write!(f, "output sections"),
            Limited::Parts => write!(f, "parts"),
            Limited::Segments => write!(f, "segments"),
            Limited::Regions => write!(f, "regions"),
            Limited::Events => write!(f, "events"),
            Limited::Symbols => write!(f, "symbols"),
            Limited::InputSections => write!(f, "input sections"),
            Limited::Candidates => write!(f, "candidates"),
            Limited::Relocations => write!(f, "relocations"),
            Limited::Relaxations => write!(f, "relaxations"),
            Limited::NameBytes => write!(f, "name bytes"),
            Limited::MergeBytes => write!(f, "merge bytes"),
        }
    }
}

impl Rule {
    ghost use Rattle.lk_link.specs.Texts.{rule_number};

    /// The number under which the rule is told.
    pub fn number(self) -> u8
        ensures { result ≡ rule_number self }
    {
        match self {
            Rule::Options => 1,
            Rule::Page => 2,
            Rule::Sections => 3,
            Rule::PartFields => 4,
            Rule::Singletons => 5,
            Rule::TlsSegment => 6,
            Rule::Events => 7,
            Rule::Expressions => 8,
            Rule::Prelude => 9,
            Rule::Symbols => 10,
            Rule::InputSections => 11,
            Rule::Tables => 12,
            Rule::Candidates => 13,
            Rule::Data => 14,
        }
    }
}

/// As `section 3` or `input 1 0 2`.
impl fmt::Display for Place {
    ghost use Rattle.std.specs.Prelude.{Some};
    ghost use Rattle.lk_link.specs.Texts.{place_text};

    ghost output = { λ place. Some (place_text place) };

    fn fmt<W: fmt::Write>(&self, f: &mut fmt::Formatter<W>) -> fmt::Result {
        match *self {
            Place::Options => write!(f, "options"),
            Place::Plan => write!(f, "plan"),
            Place::Base => write!(f, "base"),
            Place::Section(i) => write!(f, "section {i}"),
            Place::PartField(i) => write!(f, "part field {i}"),
            Place::Part(i) => write!(f, "part {i}"),
            Place::Segment(i) => write!(f, "segment {i}"),
            Place::Region(i) => write!(f, "region {i}"),
            Place::Event(i) => write!(f, "event {i}"),
            Place::Symbol(i) => write!(f, "symbol {i}"),
            Place::File(id) => {
                let FileId { group, file } = id;
                write!(f, "file {group} {file}")
            }
            Place::Input(id, i) => {
                let FileId { group, file } = id;
                write!(f, "input {group} {file} {i}")
            }
        }
    }
}

/// As `too many parts: 1048577, limit 1048576` or `bad link: rule 3, section 1`.
impl fmt::Display for LinkFault {
    ghost use Rattle.std.specs.Prelude.{Some};
    ghost use Rattle.lk_link.specs.Texts.{link_fault_text};

    ghost output = { λ fault. Some (link_fault_text fault) };

    fn fmt<W: fmt::Write>(&self, f: &mut fmt::Formatter<W>) -> fmt::Result {
        match *self {
            LinkFault::TooMany { what, count, limit } => {
                write!(f, "too many {what}: {count}, limit {limit}")
            }
            LinkFault::BadLink { rule, place } => {
                let number = rule.number();
                write!(f, "bad link: rule {number}, {place}")
            }
        }
    }
}
