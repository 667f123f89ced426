//! Why a link isn't laid out.

ghost use Rattle.std.specs.Prelude.{◌≡◌, Some};
ghost use Rattle.std.specs.Fmt.{DisplaysOnOk};
ghost use Rattle.lk_link.specs.declared.fault.LinkFault.TheVariants as fault;
ghost use Rattle.lk_link.specs.Texts.{link_fault_text};
ghost use Rattle.lk_layout.specs.Texts.{backwards_text, duplicate_text, full_bucket_text, full_region_text, low_base_text, out_of_reach_text, outside_text};
ghost use Rattle.lk_layout.specs.Texts.{reach_text, references_text, undeclared_text, unterminated_text};

use crate::references::FurtherLines;
use lk_link::fault::{Limited, LinkFault, Place, Rule};
use lk_link::ids::{FileId, OutputSectionId, RegionId};
use lk_link::list::List;
use lk_live::{GcError, InputAt, ReferenceFault};
use lk_merge::MergeError;
use lk_place::{NoValue, PlaceError};
use lk_relax::RelaxedPlace;
use lk_resolutions::MergeOffsetPlace;
use lk_sizes::SizeError;
use lk_thunk_plan::BranchPlace;
use std::alloc::{AllocError, AllocFailed};
use std::fmt;

/// What doesn't reach.
#[derive(Clone, Copy, Debug, PartialEq, Eq)]
pub enum ReachKind {
    /// A branch: neither its target nor a thunk for it is near.
    Branch,
    /// A candidate that relaxation deleted: its symbol is farther away than its limit.
    Relaxed,
}

/// Why a link isn't laid out: the first refusal, in the order in which they are looked for, or want of memory
/// (libwild reports texts).
#[derive(Drop)]
pub enum LayoutError {
    NoMemory,
    /// A list of the description is too long.
    TooMany {
        what: Limited,
        count: u64,
        limit: u64,
    },
    /// A rule is broken, first at this place.
    BadLink {
        rule: Rule,
        place: Place,
    },
    /// The strings of a merged section don't end in a zero byte: one of the inputs of the first such output section.
    MergeNotTerminated {
        section: OutputSectionId,
        input: u32,
    },
    /// A bucket of merged data has no room for a piece of so many bytes, which would start at this offset there.
    MergeTooLarge {
        section: OutputSectionId,
        bucket: u32,
        offset: u64,
        len: u64,
    },
    /// These references can't be met: all of them, by file, section and relocation.
    References(List<ReferenceFault>),
    /// A size or an address passes 2^64 - 1, first at this part or event.
    AddressOverflow {
        place: Place,
    },
    /// A region has the name of an earlier one.
    RegionDuplicate {
        region: RegionId,
    },
    /// An expression has no value.
    Expression {
        place: Place,
        cause: NoValue,
    },
    /// A section that is placed names a region that isn't there.
    RegionUnknown {
        section: OutputSectionId,
    },
    /// The sections of a region take more bytes than it has, by so many.
    RegionOverflow {
        region: RegionId,
        by: u64,
    },
    /// A location that the section of this event takes stands outside its region.
    OutsideRegion {
        event: usize,
        address: u64,
    },
    /// A location stands before where it may.
    LocationBackwards {
        from: u64,
        to: u64,
    },
    /// A base that is asked for has no room for the headers below it.
    BaseTooLow {
        base: u64,
        headers: u64,
    },
    /// A section with memory, which is emitted or has bytes, stands in no segment; the first in the order of events.
    SectionOutsideSegments {
        section: OutputSectionId,
    },
    /// An offset at the end of a merged section's data or past it is chosen; the first of symbols, else of relocations.
    MergeOffset(MergeOffsetPlace),
    /// A relocation doesn't reach, or a deleted candidate; the first of live sections by file, section and index.
    OutOfReach {
        kind: ReachKind,
        file: FileId,
        section: u32,
        index: u32,
    },
}

impl ReachKind {
    /// The word under which it is told.
    #[tactic(auto, unfolding(crate::specs::Texts::reach_text))]
    fn word(self) -> &'static str
        ensures { result.now ≡ reach_text self }
    {
        match self {
            ReachKind::Branch => "branch",
            ReachKind::Relaxed => "relaxed",
        }
    }
}

/// Writes that a list is too long.
fn write_too_many<W: fmt::Write>(
    f: &mut fmt::Formatter<W>,
    what: Limited,
    count: u64,
    limit: u64,
) -> fmt::Result
    ensures { DisplaysOnOk W.write_str_gives f.old result (Some (link_fault_text (fault.TooMany what count limit))) f.new }
{
    let fault = LinkFault::TooMany { what, count, limit };
    write!(f, "{fault}")
}

/// Writes that a rule is broken, and where.
fn write_bad_link<W: fmt::Write>(f: &mut fmt::Formatter<W>, rule: Rule, place: Place) -> fmt::Result
    ensures { DisplaysOnOk W.write_str_gives f.old result (Some (link_fault_text (fault.BadLink rule place))) f.new }
{
    let fault = LinkFault::BadLink { rule, place };
    write!(f, "{fault}")
}

/// Writes that the strings of an input don't end in a zero byte: with the output section, and the input's number there.
#[tactic(auto, unfolding(crate::specs::Texts::unterminated_text))]
fn write_unterminated<W: fmt::Write>(
    f: &mut fmt::Formatter<W>,
    section: OutputSectionId,
    input: u32,
) -> fmt::Result
    ensures { DisplaysOnOk W.write_str_gives f.old result (Some (unterminated_text section input)) f.new }
{
    let section = section.as_u32();
    write!(
        f,
        "String in merge-string section is not null-terminated: section {section}, input {input}"
    )
}

/// Writes that a bucket has no room for a piece: with the output section, the bucket's number there, and where the piece would
/// start.
#[tactic(auto, unfolding(crate::specs::Texts::full_bucket_text))]
fn write_full_bucket<W: fmt::Write>(
    f: &mut fmt::Formatter<W>,
    section: OutputSectionId,
    bucket: u32,
    offset: u64,
    len: u64,
) -> fmt::Result
    ensures { DisplaysOnOk W.write_str_gives f.old result (Some (full_bucket_text section bucket offset len)) f.new }
{
    let section = section.as_u32();
    write!(
        f,
        "Merge-string bucket too large: section {section}, bucket {bucket}, offset {offset}, length {len}"
    )
}

/// Writes references that can't be met, a line for each; no line ends behind the last.
fn write_references<W: fmt::Write>(
    f: &mut fmt::Formatter<W>,
    faults: &[ReferenceFault],
) -> fmt::Result
    ensures { DisplaysOnOk W.write_str_gives f.old result (Some (references_text faults.now)) f.new }
{
    match faults.split_first() {
        Some((first, faults)) => {
            let further = FurtherLines { faults };
            write!(f, "{first}{further}")
        }
        None => Ok(()),
    }
}

/// Writes that a region has the name of an earlier one.
#[tactic(auto, unfolding(crate::specs::Texts::duplicate_text))]
fn write_duplicate<W: fmt::Write>(f: &mut fmt::Formatter<W>, region: RegionId) -> fmt::Result
    ensures { DisplaysOnOk W.write_str_gives f.old result (Some (duplicate_text region)) f.new }
{
    let region = region.as_u32();
    write!(f, "region {region} already defined")
}

/// Writes that the region of a section isn't there.
#[tactic(auto, unfolding(crate::specs::Texts::undeclared_text))]
fn write_undeclared<W: fmt::Write>(
    f: &mut fmt::Formatter<W>,
    section: OutputSectionId,
) -> fmt::Result
    ensures { DisplaysOnOk W.write_str_gives f.old result (Some (undeclared_text section)) f.new }
{
    let section = section.as_u32();
    write!(f, "region of section {section} not declared")
}

/// Writes that the sections of a region take more bytes than it has: with the bytes too many.
#[tactic(auto, unfolding(crate::specs::Texts::full_region_text))]
fn write_full_region<W: fmt::Write>(
    f: &mut fmt::Formatter<W>,
    region: RegionId,
    by: u64,
) -> fmt::Result
    ensures { DisplaysOnOk W.write_str_gives f.old result (Some (full_region_text region by)) f.new }
{
    let region = region.as_u32();
    write!(f, "region {region} overflowed by {by} bytes")
}

/// Writes that a location stands outside its region: with the address in hexadecimal.
#[tactic(auto, unfolding(crate::specs::Texts::outside_text))]
fn write_outside<W: fmt::Write>(
    f: &mut fmt::Formatter<W>,
    event: usize,
    address: u64,
) -> fmt::Result
    ensures { DisplaysOnOk W.write_str_gives f.old result (Some (outside_text event address)) f.new }
{
    write!(
        f,
        "address 0x{address:x} at event {event} is outside its region"
    )
}

/// Writes that a location stands before where it may: with both numbers, in hexadecimal.
#[tactic(auto, unfolding(crate::specs::Texts::backwards_text))]
fn write_backwards<W: fmt::Write>(f: &mut fmt::Formatter<W>, from: u64, to: u64) -> fmt::Result
    ensures { DisplaysOnOk W.write_str_gives f.old result (Some (backwards_text from to)) f.new }
{
    write!(
        f,
        "Cannot move location counter backwards (from 0x{from:x} to 0x{to:x})"
    )
}

/// Writes that a base has no room for the headers below it: with both numbers, in hexadecimal.
#[tactic(auto, unfolding(crate::specs::Texts::low_base_text))]
fn write_low_base<W: fmt::Write>(f: &mut fmt::Formatter<W>, base: u64, headers: u64) -> fmt::Result
    ensures { DisplaysOnOk W.write_str_gives f.old result (Some (low_base_text base headers)) f.new }
{
    write!(
        f,
        "base address (0x{base:x}) is less than the size of headers (0x{headers:x})"
    )
}

/// Writes that a relocation doesn't reach: with its file, its section's index there, and its own.
#[tactic(auto, unfolding(crate::specs::Texts::out_of_reach_text))]
fn write_out_of_reach<W: fmt::Write>(
    f: &mut fmt::Formatter<W>,
    kind: ReachKind,
    file: FileId,
    section: u32,
    index: u32,
) -> fmt::Result
    ensures { DisplaysOnOk W.write_str_gives f.old result (Some (out_of_reach_text kind file section index)) f.new }
{
    let kind = kind.word();
    let input = InputAt { file, section };
    write!(f, "out of reach: {kind} {input} {index}")
}

/// As `section 3 is in no segment`; of references that can't be met a line for each; nothing for want of memory.
impl fmt::Display for LayoutError {
    ghost use Rattle.std.specs.Prelude.{Some};
    ghost use Rattle.lk_layout.specs.Texts.{error_text};

    ghost output = { λ error. Some (error_text error) };

    fn fmt<W: fmt::Write>(&self, f: &mut fmt::Formatter<W>) -> fmt::Result {
        use LayoutError as E;
        match self {
            E::NoMemory => Ok(()),
            E::TooMany { what, count, limit } => write_too_many(f, *what, *count, *limit),
            E::BadLink { rule, place } => write_bad_link(f, *rule, *place),
            E::MergeNotTerminated { section, input } => write_unterminated(f, *section, *input),
            E::MergeTooLarge {
                section,
                bucket,
                offset,
                len,
            } => write_full_bucket(f, *section, *bucket, *offset, *len),
            E::References(faults) => write_references(f, faults.as_slice()),
            E::AddressOverflow { place } => write!(f, "address overflow: {place}"),
            E::RegionDuplicate { region } => write_duplicate(f, *region),
            E::Expression { place, cause } => write!(f, "expression at {place}: {cause}"),
            E::RegionUnknown { section } => write_undeclared(f, *section),
            E::RegionOverflow { region, by } => write_full_region(f, *region, *by),
            E::OutsideRegion { event, address } => write_outside(f, *event, *address),
            E::LocationBackwards { from, to } => write_backwards(f, *from, *to),
            E::BaseTooLow { base, headers } => write_low_base(f, *base, *headers),
            E::SectionOutsideSegments { section } => {
                let section = section.as_u32();
                write!(f, "section {section} is in no segment")
            }
            E::MergeOffset(place) => write!(f, "{place}"),
            E::OutOfReach {
                kind,
                file,
                section,
                index,
            } => write_out_of_reach(f, *kind, *file, *section, *index),
        }
    }
}

/// As it is displayed.
impl fmt::Debug for LayoutError {
    fn fmt<W: fmt::Write>(&self, f: &mut fmt::Formatter<W>) -> fmt::Result {
        write!(f, "{self}")
    }
}

impl From<AllocError> for LayoutError {
    ghost use Rattle.std.specs.Prelude.{◌≡◌};
    ghost use Rattle.lk_layout.specs.declared.error.LayoutError.TheVariants.{NoMemory};

    ghost from_gives = { λ _ e. e ≡ NoMemory };

    fn from(_error: AllocError) -> LayoutError {
        LayoutError::NoMemory
    }
}

impl<T: Drop> From<AllocFailed<T>> for LayoutError {
    ghost use Rattle.std.specs.Prelude.{◌≡◌};
    ghost use Rattle.lk_layout.specs.declared.error.LayoutError.TheVariants.{NoMemory};

    ghost from_gives = { λ _ e. e ≡ NoMemory };

    fn from(_error: AllocFailed<T>) -> LayoutError {
        LayoutError::NoMemory
    }
}

impl From<LinkFault> for LayoutError {
    ghost use Rattle.std.specs.Prelude.{◌≡◌};
    ghost use Rattle.lk_layout.specs.Errors.{fault_error};

    ghost from_gives = { λ fault e. e ≡ fault_error fault };

    fn from(fault: LinkFault) -> LayoutError {
        match fault {
            LinkFault::TooMany { what, count, limit } => LayoutError::TooMany {
                what,
                count,
                limit,
            },
            LinkFault::BadLink { rule, place } => LayoutError::BadLink { rule, place },
        }
    }
}

impl From<GcError> for LayoutError {
    ghost use Rattle.std.specs.Prelude.{◌≡◌};
    ghost use Rattle.lk_layout.specs.Errors.{gc_error};

    ghost from_gives = { λ error e. e ≡ gc_error error };

    fn from(error: GcError) -> LayoutError {
        match error {
            GcError::References(faults) => LayoutError::References(faults),
            GcError::NoMemory => LayoutError::NoMemory,
        }
    }
}

impl From<MergeError> for LayoutError {
    ghost use Rattle.std.specs.Prelude.{◌≡◌};
    ghost use Rattle.lk_layout.specs.Errors.{merge_error};

    ghost from_gives = { λ error e. e ≡ merge_error error };

    fn from(error: MergeError) -> LayoutError {
        match error {
            MergeError::NotTerminated { section, input } => {
                LayoutError::MergeNotTerminated { section, input }
            }
            MergeError::TooLarge {
                section,
                bucket,
                offset,
                len,
            } => LayoutError::MergeTooLarge {
                section,
                bucket,
                offset,
                len,
            },
            MergeError::NoMemory => LayoutError::NoMemory,
        }
    }
}

impl From<MergeOffsetPlace> for LayoutError {
    ghost use Rattle.std.specs.Prelude.{◌≡◌};
    ghost use Rattle.lk_layout.specs.Errors.{offset_error};

    ghost from_gives = { λ place e. e ≡ offset_error place };

    fn from(place: MergeOffsetPlace) -> LayoutError {
        LayoutError::MergeOffset(place)
    }
}

impl From<BranchPlace> for LayoutError {
    ghost use Rattle.std.specs.Prelude.{◌≡◌};
    ghost use Rattle.lk_layout.specs.Errors.{branch_error};

    ghost from_gives = { λ place e. e ≡ branch_error place };

    fn from(place: BranchPlace) -> LayoutError {
        LayoutError::OutOfReach {
            kind: ReachKind::Branch,
            file: place.file,
            section: place.section,
            index: place.relocation,
        }
    }
}

impl From<RelaxedPlace> for LayoutError {
    ghost use Rattle.std.specs.Prelude.{◌≡◌};
    ghost use Rattle.lk_layout.specs.Errors.{site_error};

    ghost from_gives = { λ place e. e ≡ site_error place };

    fn from(place: RelaxedPlace) -> LayoutError {
        LayoutError::OutOfReach {
            kind: ReachKind::Relaxed,
            file: place.file,
            section: place.section,
            index: place.candidate,
        }
    }
}

impl From<SizeError> for LayoutError {
    ghost use Rattle.std.specs.Prelude.{◌≡◌};
    ghost use Rattle.lk_layout.specs.Errors.{size_error};

    ghost from_gives = { λ error e. e ≡ size_error error };

    fn from(error: SizeError) -> LayoutError {
        match error {
            SizeError::AddressOverflow { place } => LayoutError::AddressOverflow { place },
            SizeError::NoMemory => LayoutError::NoMemory,
        }
    }
}

impl From<PlaceError> for LayoutError {
    ghost use Rattle.std.specs.Prelude.{◌≡◌};
    ghost use Rattle.lk_layout.specs.Errors.{place_error};

    ghost from_gives = { λ error e. e ≡ place_error error };

    fn from(error: PlaceError) -> LayoutError {
        match error {
            PlaceError::AddressOverflow { place } => LayoutError::AddressOverflow { place },
            PlaceError::RegionDuplicate { region } => LayoutError::RegionDuplicate { region },
            PlaceError::Expression { place, cause } => LayoutError::Expression { place, cause },
            PlaceError::RegionUnknown { section } => LayoutError::RegionUnknown { section },
            PlaceError::RegionOverflow { region, by } => LayoutError::RegionOverflow { region, by },
            PlaceError::OutsideRegion { event, address } => {
                LayoutError::OutsideRegion { event, address }
            }
            PlaceError::LocationBackwards { from, to } => {
                LayoutError::LocationBackwards { from, to }
            }
            PlaceError::BaseTooLow { base, headers } => LayoutError::BaseTooLow { base, headers },
            PlaceError::SectionOutsideSegments { section } => {
                LayoutError::SectionOutsideSegments { section }
            }
            PlaceError::NoMemory => LayoutError::NoMemory,
        }
    }
}
