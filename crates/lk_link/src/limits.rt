//! How long the lists of a link may be, and which numbers its options may give. A checked link is within all of them.

ghost use Rattle.std.specs.Prelude.{◌≡◌};

use crate::fault::Limited;

/// Groups of files.
pub const GROUPS: u64 = 65535;
/// Files of all groups.
pub const FILES: u64 = 16777216;
/// Output sections of the plan.
pub const OUTPUT_SECTIONS: u64 = 65279;
/// Parts of all output sections.
pub const PARTS: u64 = 1048576;
/// Segments of the plan.
pub const SEGMENTS: u64 = 64;
/// Regions of the plan.
pub const REGIONS: u64 = 64;
/// Events of the plan.
pub const EVENTS: u64 = 262144;
/// Symbols of all files.
pub const SYMBOLS: u64 = 16777216;
/// Input sections of all files.
pub const INPUT_SECTIONS: u64 = 16777216;
/// Candidates of all files.
pub const CANDIDATES: u64 = 16777216;
/// Relocations of one input section.
pub const RELOCATIONS: u64 = 16777216;
/// Relaxations of one input section.
pub const RELAXATIONS: u64 = 16777216;
/// Bytes of the names of symbols, output sections and input sections, one more for each.
pub const NAME_BYTES: u64 = 2147483647;
/// Bytes of all merge sections, each rounded up to a multiple of `MERGE_UNIT`.
pub const MERGE_BYTES: u64 = 1099511627776;
/// The bytes of a merge section are counted as the least multiple of this that holds them.
pub const MERGE_UNIT: u64 = 256;
/// How many sets of section attributes there are: the attributes of an output section are below this.
pub const ATTRIBUTE_SETS: u32 = 32;
/// How many sets of flags a description can give a symbol: its flags are below this.
pub const GIVEN_FLAG_SETS: u32 = 64;
/// A limited branch reaches further than this, in bytes.
pub const MOST_NEAR_BRANCH: u64 = 2097152;
/// The most bytes that may be asked for a bucket of merged strings.
pub const MOST_BUCKET: u64 = 268435456;
/// The most bytes that may be asked for a group of merged strings.
pub const MOST_MERGE_GROUP: u64 = 4294967296;
/// How deep an expression may be: an operand is 1 deep, and what joins two is one deeper than the deeper one.
pub const MOST_DEPTH: usize = 100;
/// The greatest alignment of the code that thunks are made for, in bytes.
pub const MOST_PRIMARY_ALIGNMENT: u64 = 16;

impl Limited {
    ghost use Rattle.lk_link.specs.Limits.{limit_of};

    /// How long the list may be, or how many bytes there may be.
    #[tactic(auto, unfolding(crate::specs::Limits::limit_of))]
    pub fn limit(self) -> u64
        ensures { result ≡ limit_of self }
    {
        match self {
            Limited::Groups => GROUPS,
            Limited::Files => FILES,
            Limited::OutputSections => OUTPUT_SECTIONS,
            Limited::Parts => PARTS,
            Limited::Segments => SEGMENTS,
            Limited::Regions => REGIONS,
            Limited::Events => EVENTS,
            Limited::Symbols => SYMBOLS,
            Limited::InputSections => INPUT_SECTIONS,
            Limited::Candidates => CANDIDATES,
            Limited::Relocations => RELOCATIONS,
            Limited::Relaxations => RELAXATIONS,
            Limited::NameBytes => NAME_BYTES,
            Limited::MergeBytes => MERGE_BYTES,
        }
    }
}
