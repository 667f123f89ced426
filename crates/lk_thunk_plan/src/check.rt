//! The look at all live branches over final addresses.
//!
//! Files are walked in their order, and beside them the objects that have blocks, which stand in that order too. The walk ends at
//! the first branch that reaches neither its target nor its thunk. The thunk is looked for only where the target isn't near. Sums of
//! addresses and offsets are taken in 128 bits, so none is lost.

ghost use Rattle.std.specs.Prelude.{◌≡◌, ◌+◌, ◌<◌, ◌^◌, ℕ, All, Option, Some, None, if◌then◌else◌, is_some, map, option_and_then, option_map, slice_get, slice_index};
ghost use Rattle.std.specs.List.{flat_map};
ghost use Rattle.lk_link.specs.Files.{file_in};
ghost use Rattle.lk_link.specs.Inputs.{input_number, numbered_files};
ghost use Rattle.lk_link.specs.Symbols.{first_symbol};
ghost use Rattle.lk_link.specs.Walks.{file_of};
ghost use Rattle.lk_link.specs.WellFormed.{IsWellFormed};
ghost use Rattle.lk_thunks.specs.Reach.{is_near};
ghost use Rattle.lk_thunks.specs.SetLaws.{IsRising};
ghost use Rattle.lk_stops.specs.Stops.{StopsAtFirst};
ghost use Rattle.lk_thunk_plan.specs.Branches.{block_of, branch_target, file_unreached, is_given_later, is_reaching, relocation_unreached, section_unreached, standing_of, target_of, thunk_in, thunks_of, unreached};
ghost use Rattle.lk_thunk_plan.specs.BranchWords.{IsAtHand, SpotRises, block_next, branching_of, standing_at};
ghost use Rattle.lk_thunk_plan.specs.Orders.{IsInOrder};

use crate::thunk_plan::ThunkPlan;
use lk_deltas::{RelaxDeltaMap, SectionRelaxDeltas, deleted_in, map_of, opt_input_to_output};
use lk_link::marks::is_marked;
use lk_link::{
    FileId, FileRef, InputSection, LinkInput, Relocation, Resolution, SymbolId, ValueFlags,
};
use lk_live::{InputAt, Live};
use lk_reach::local_definition;
use lk_reach::reaching::is_primary_section;
use lk_resolution_list::SymbolResolutions;
use lk_thunks::{ThunkBlock, ThunkBlockId, ThunkConfig};
use std::fmt;

/// A branch that reaches neither its target nor a thunk: its file, the section's index there, and the relocation's index in the
/// section.
#[derive(Clone, Copy, Debug, PartialEq, Eq)]
pub struct BranchPlace {
    /// Its file.
    pub file: FileId,
    /// The index of its section in the file.
    pub section: u32,
    /// The index of its relocation in the section.
    pub relocation: u32,
}

/// As `out of reach: branch 1 0 2 5`, with group, file, section and relocation.
impl fmt::Display for BranchPlace {
    ghost use Rattle.std.specs.Prelude.{Some};
    ghost use Rattle.lk_thunk_plan.specs.Texts.{branch_text};

    ghost output = { λ place. Some (branch_text place) };

    fn fmt<W: fmt::Write>(&self, f: &mut fmt::Formatter<W>) -> fmt::Result {
        let input = InputAt {
            file: self.file,
            section: self.section,
        };
        let relocation = self.relocation;
        write!(f, "out of reach: branch {input} {relocation}")
    }
}

/// What branches go by.
#[derive(Clone, Copy)]
pub struct Branches<'a> {
    /// The link that they are of.
    pub link: &'a LinkInput,
    /// What is live of it.
    pub live: &'a Live,
    /// The blocks of its thunks.
    pub plan: &'a ThunkPlan,
    /// Where the thunks of each block begin; none without an owner.
    pub places: &'a [Option<u64>],
    /// The addresses of input sections, by number over all files.
    pub addresses: &'a [u64],
    /// What is deleted of the sections of each file, by the file's number over all groups.
    pub deltas: &'a [RelaxDeltaMap],
    /// What symbols stand for.
    pub resolutions: &'a SymbolResolutions,
}

/// A file whose branches are looked at.
#[derive(Clone, Copy)]
pub(crate) struct BranchFile<'a> {
    /// How thunks are made.
    config: &'a ThunkConfig,
    file: FileRef<'a>,
    /// The number of its first section over all files.
    start: usize,
    /// The number of its first symbol.
    first: u32,
    /// Its block, if it is in one.
    block: Option<usize>,
    /// What is deleted of its sections, if there is an entry for it.
    entries: Option<&'a RelaxDeltaMap>,
}

/// Where the branches of a section stand.
#[derive(Clone, Copy)]
pub(crate) struct Spot<'a> {
    /// The section's address.
    address: u64,
    /// What is deleted of it.
    deleted: Option<&'a SectionRelaxDeltas>,
    /// The thunks by which they may go, with where these begin.
    thunks: Option<(u64, &'a ThunkBlock)>,
}

/// Refuses the first live branch that reaches neither its target nor the thunk for it. Nothing is refused where no thunks are made. Looks
/// once at each relocation of live sections; takes no memory, and for each branch logarithmic time in what is deleted of its section, for
/// one whose target isn't near also in a block's thunks.
pub fn check_branches(by: &Branches<'_>) -> Result<(), BranchPlace>
    requires good { IsWellFormed by.now.link.now }
    requires order { IsInOrder by.now.link.now by.now.plan.now }
    ensures { StopsAtFirst (unreached (branching_of by.now)) result }
{
    let Some(config) = &by.plan.config else {
        return Ok(());
    };
    check_files(by, config)
}

/// Refuses the first branch of all files that doesn't reach.
fn check_files<'a>(by: &Branches<'a>, config: &'a ThunkConfig) -> Result<(), BranchPlace>
    requires good { IsWellFormed by.now.link.now }
    requires order { IsInOrder by.now.link.now by.now.plan.now }
    ensures { StopsAtFirst (flat_map (file_unreached (branching_of by.now) config.now) (numbered_files by.now.link.now.groups)) result }
{
    let users = by.plan.users.as_slice();
    let mut next = 0;
    for file in by.link.groups.files() {
        let block = take_block(users, &mut next, file.id);
        check_file(by, config, file, block)?;
    }
    Ok(())
}

/// The block of a file, if it is that of the next object, which is behind it then.
fn take_block(
    users: &[(FileId, ThunkBlockId, bool)],
    next: &mut usize,
    file: FileId,
) -> Option<usize>
    ensures block { result ≡ block_next users.now next.old file }
    ensures moved { next.new ≡ next.old + (if is_some result then 1 else 0) }
{
    let user = users.get(*next)?;
    if user.0 != file {
        return None;
    }
    *next += 1;
    Some(user.1.as_usize())
}

/// Refuses the first branch of a file that doesn't reach. `block` is that of the file.
fn check_file<'a>(
    by: &Branches<'a>,
    config: &'a ThunkConfig,
    file: FileRef<'a>,
    block: Option<usize>,
) -> Result<(), BranchPlace>
    requires good { IsWellFormed by.now.link.now }
    requires sets { All IsRising (map (λ b. b.symbols) by.now.plan.now.blocks) }
    requires there { file_in by.now.link.now.groups file.id ≡ Some file.file.now }
    requires block { block ≡ block_of by.now.plan.now.users file.id }
    ensures { StopsAtFirst (file_unreached (branching_of by.now) config.now (file_of file.entry)) result }
{
    let Some(start) = by.link.groups.input_start(file.id) else {
        return Ok(());
    };
    let Some(numbers) = by.link.groups.symbol_id_range(file.id) else {
        return Ok(());
    };
    let at = BranchFile {
        config,
        file,
        start,
        first: numbers.start().as_u32(),
        block,
        entries: map_of(by.link, by.deltas, file.id),
    };
    for (index, section) in file.file.sections.as_slice().iter().enumerate() {
        check_section(by, &at, index as u32, section)?;
    }
    Ok(())
}

/// Refuses the first branch of a section with this index that doesn't reach, if the section is live and loaded for what it holds.
fn check_section<'a>(
    by: &Branches<'a>,
    at: &BranchFile<'a>,
    index: u32,
    section: &InputSection,
) -> Result<(), BranchPlace>
    requires good { IsWellFormed by.now.link.now }
    requires sets { All IsRising (map (λ b. b.symbols) by.now.plan.now.blocks) }
    requires file { IsAtHand (branching_of by.now) at.now }
    requires section { slice_get at.now.file.file.now.sections index ≡ Some section.now }
    ensures { StopsAtFirst (section_unreached (branching_of by.now) at.now.config.now (file_of at.now.file) (index, section.now)) result }
{
    let number = at.start + index as usize;
    if !is_marked(by.live.marks.as_slice(), number) || !section.slot.is_regular() {
        return Ok(());
    }
    let spot = spot_of(by, at, number, index, section);
    for (place, relocation) in section.relocs.as_slice().iter().enumerate() {
        check_relocation(by, at, spot, (index, place as u32), *relocation)?;
    }
    Ok(())
}

/// Where the branches of a section stand, with this number over all files and this index in its file.
fn spot_of<'a>(
    by: &Branches<'a>,
    at: &BranchFile<'a>,
    number: usize,
    index: u32,
    section: &InputSection,
) -> Spot<'a>
    requires sets { All IsRising (map (λ b. b.symbols) by.now.plan.now.blocks) }
    requires file { IsAtHand (branching_of by.now) at.now }
    requires number { number ≡ input_number by.now.link.now.groups at.now.file.id index }
    ensures spot { standing_at result ≡ standing_of (branching_of by.now) at.now.file.id (index, section.now) }
    ensures rising { SpotRises result }
{
    let block = if is_primary_section(by.link, section) {
        at.block
    } else {
        Some(ThunkBlockId::FIRST.as_usize())
    };
    Spot {
        address: address_at(by.addresses, number),
        deleted: deleted_in(at.entries, index),
        thunks: thunks_of(by, block),
    }
}

/// The address of an input section by its number, or 0.
fn address_at(addresses: &[u64], number: usize) -> u64
    ensures { result ≡ slice_index addresses.now number }
{
    match addresses.get(number) {
        Some(address) => *address,
        None => 0,
    }
}

/// The thunks of a block with where they begin, if there is a block and its thunks have addresses.
fn thunks_of<'a>(by: &Branches<'a>, block: Option<usize>) -> Option<(u64, &'a ThunkBlock)>
    ensures { option_map (λ q. (q.0, q.1.now.symbols)) result ≡ option_and_then (thunks_of (branching_of by.now)) block }
{
    let number = block?;
    let begin = by.places.get(number).copied()??;
    let thunks = by.plan.blocks.as_slice().get(number)?;
    Some((begin, thunks))
}

/// Refuses a relocation, by the index of its section and its own there, if a thunk may stand in for it and it doesn't reach.
fn check_relocation(
    by: &Branches<'_>,
    at: &BranchFile<'_>,
    spot: Spot<'_>,
    place: (u32, u32),
    relocation: Relocation,
) -> Result<(), BranchPlace>
    requires rising { SpotRises spot }
    requires first { at.now.first ≡ first_symbol by.now.link.now.groups at.now.file.id }
    requires number { at.now.first + relocation.symbol < 2 ^ 32 }
    ensures { StopsAtFirst (relocation_unreached (branching_of by.now) at.now.config.now (file_of at.now.file) place.0 (standing_at spot.entry) (place.1, relocation)) result }
{
    if !relocation.thunkable {
        return Ok(());
    }
    let symbols = at.file.file.symbols.as_slice();
    let definition = local_definition(at.first, symbols, relocation.symbol);
    if is_reaching(
        at.config,
        by.resolutions,
        spot,
        relocation.offset,
        definition,
    ) {
        return Ok(());
    }
    Err(BranchPlace {
        file: at.file.id,
        section: place.0,
        relocation: place.1,
    })
}

/// Whether a branch at an offset of a section reaches a definition, or the thunk for it, from where the offset goes by what is deleted;
/// one whose target isn't known does.
fn is_reaching(
    config: &ThunkConfig,
    resolutions: &SymbolResolutions,
    spot: Spot<'_>,
    offset: u64,
    definition: SymbolId,
) -> bool
    requires { SpotRises spot }
    ensures { result ≡ is_reaching config.now resolutions.now (standing_at spot.entry) offset definition }
{
    let Some(target) = branch_target(resolutions, definition) else {
        return true;
    };
    let moved = opt_input_to_output(spot.deleted, offset);
    let site = u128::from(spot.address) + u128::from(moved);
    is_near(config.min_branch_range, site, u128::from(target))
        || match thunk_at(config.thunk_size, spot, definition) {
            Some(thunk) => is_near(config.min_branch_range, site, thunk),
            None => false,
        }
}

/// Whether two addresses are nearer to each other than the range, in bytes.
fn is_near(range: u64, a: u128, b: u128) -> bool
    ensures { result ≡ is_near range a b }
{
    a.abs_diff(b) < u128::from(range)
}

/// The address of the thunk for a definition, if there is one.
fn thunk_at(size: u64, spot: Spot<'_>, definition: SymbolId) -> Option<u128>
    requires { SpotRises spot }
    ensures { result ≡ option_and_then (thunk_in size definition) (standing_at spot.entry).thunks }
{
    let (begin, thunks) = spot.thunks?;
    let rank = thunks.place_of(definition)?;
    Some(u128::from(begin) + rank as u128 * u128::from(size))
}

/// Where a branch to a definition goes, if it is known.
fn branch_target(resolutions: &SymbolResolutions, definition: SymbolId) -> Option<u64>
    ensures { result ≡ branch_target resolutions.now definition }
{
    match resolutions.get(definition) {
        Some(resolution) => target_of(resolution),
        None => None,
    }
}

/// Where a branch goes to what a resolution tells, if it is known: to its entry in `plt`, else to its value.
#[tactic(auto, unfolding(lk_link::specs::Files::first_some))]
fn target_of(resolution: Resolution) -> Option<u64>
    ensures { result ≡ target_of resolution }
{
    match resolution.plt {
        Some(entry) => Some(entry),
        None if is_given_later(resolution.flags) => None,
        None => Some(resolution.raw_value),
    }
}

/// Whether the value of a symbol with these flags is no address that is known at this time.
fn is_given_later(flags: ValueFlags) -> bool
    ensures { result ≡ is_given_later flags }
{
    flags.is_absolute() || flags.is_dynamic()
}
