//! Relaxation of a link: passes one after the other, until nothing is left to look at, or nothing fell, or there were five.
//!
//! A pass looks at sections by the addresses before it, deletes what more can go, and tells by what fell which sections are looked at
//! again. Where capacities fell, all parts are placed anew by what is left; where they didn't, the placement stays as it is.

ghost use Rattle.std.specs.Prelude.{◌≡◌, ◌<◌, IfOk, None, Ok, length, unwrap_or};
ghost use Rattle.lk_link.specs.WellFormed.{IsWellFormed};
ghost use Rattle.lk_live.specs.Reach.{AreLive};
ghost use Rattle.lk_sizes.specs.Contents.{size_refusal};
ghost use Rattle.lk_sizes.specs.Owners.{AreThunkOwners, Filling, in_output, own_sizes};
ghost use Rattle.lk_sizes.specs.Sizing.{AreFilled};
ghost use Rattle.lk_relax.specs.RelaxationWords.{Fits, GivesAnew, GivesPlaces, GivesTurn, HasBegun, IsStage, can_shrink_by, end_of, first_sections, in_hand, stage_in};
ghost use Rattle.lk_relax.specs.Relaxed.{ArePlacedFirst, GivesRelaxedLink, GivesRelaxedParts, own_filling, relaxing};
ghost use Rattle.lk_relax.specs.RelaxedLaws.{nothing_deleted};
ghost use Rattle.lk_relax.specs.Stages.{IsFirst, filling_after};

use crate::deletions::sizes_after;
use crate::laws;
use crate::passes::{InHand, Passed, pass};
use crate::positions::compute_input_section_positions;
use lk_deltas::RelaxDeltaMap;
use lk_expressions::SymbolPositions;
use lk_link::marks::is_marked;
use lk_link::plan::attributes;
use lk_link::{FileId, InputSection, LinkInput, PartId, Platform};
use lk_live::Live;
use lk_place::{PlaceError, Placed, compute_layout_sections};
use lk_sizes::{PartOwners, SizeError, add_thunks, part_sizes, plain_owners};
use std::alloc::{AllocError, Global};

/// At most so many passes are made.
const PASSES: usize = 5;

/// A link that is relaxed, what is live of it, the platform that it is for, and the bytes of the headers.
#[derive(Drop)]
pub struct Relaxation<'a, P> {
    /// The link that is relaxed.
    pub link: &'a LinkInput,
    /// What is live of it.
    pub live: &'a Live,
    /// The platform that it is for.
    pub platform: &'a P,
    /// The bytes of the headers of the file and of segments.
    pub headers: u64,
}

/// What comes into the parts of a relaxed link, what is deleted of its sections, and where all stands.
#[derive(Drop)]
pub struct RelaxedParts {
    /// What comes into the parts by what is deleted.
    pub owners: PartOwners,
    /// What is deleted of the sections of each file, by the file's number over all groups.
    pub deltas: Vec<RelaxDeltaMap>,
    pub placed: Placed,
}

/// The sizes of the input sections of a relaxed link, what is deleted of them, and where all stands (libwild: the result of
/// `perform_iterative_relaxation`).
#[derive(Drop)]
pub struct Relaxed {
    /// Those of all input sections, by number, without what is deleted.
    pub sizes: Vec<u64>,
    /// What is deleted of the sections of each file, by the file's number over all groups.
    pub deltas: Vec<RelaxDeltaMap>,
    pub placed: Placed,
}

/// What relaxation begins with, where nothing is deleted: an empty map for each file.
#[derive(Drop)]
pub(crate) enum Begun {
    /// No section can lose bytes, and this is the end.
    Ended(Vec<RelaxDeltaMap>),
    /// Some can, and the first pass looks at them.
    Looks(Looks),
}

/// What the first pass goes by, beside what comes into the parts and the placement.
#[derive(Drop)]
pub(crate) struct Looks {
    /// An empty map for each file.
    pub(crate) deltas: Vec<RelaxDeltaMap>,
    /// The sections that it looks at.
    pub(crate) scan: Vec<(FileId, u32)>,
    /// The positions of all input sections, and of all symbols.
    pub(crate) sections: Vec<Option<(PartId, u64)>>,
    pub(crate) symbols: SymbolPositions,
}

/// Where all stands.
#[derive(Drop)]
pub(crate) struct LinkPositions {
    /// The positions of all input sections, and of all symbols.
    pub(crate) sections: Vec<Option<(PartId, u64)>>,
    pub(crate) symbols: SymbolPositions,
    pub(crate) placed: Placed,
}

/// What comes of a pass.
#[derive(Drop)]
pub(crate) enum Turned {
    /// Capacities fell by nothing: the placement stays, and this is the end.
    Last(RelaxedParts),
    /// All parts are placed anew.
    Next(InHand),
}

/// Relaxes a link, of which this comes into the parts by the sizes of the description, and `first` is placed. Gives both back where the
/// link isn't to be relaxed, without a look at any section, and where no section can lose bytes, with one look at each; an empty map
/// for each file comes with them. Else makes up to five passes, each by the addresses before it: in time by the candidates of the
/// sections that it looks at, all input sections, symbols, events and parts. Refuses what a placement after the first one does.
pub fn relax_owners<P: Platform>(
    alloc: Global,
    by: &Relaxation<'_, P>,
    owners: PartOwners,
    first: Placed,
) -> Result<RelaxedParts, PlaceError>
    requires good { IsWellFormed by.now.link.now }
    requires live { AreLive by.now.link.now by.now.live.now }
    requires thunks { AreThunkOwners by.now.link.now owners.thunks }
    requires own { unwrap_or owners.sizes (own_sizes by.now.link.now) ≡ own_sizes by.now.link.now }
    requires first { (filling : Filling)
        × AreFilled (in_output by.now.link.now by.now.live.now filling) owners
        × ArePlacedFirst (relaxing (P.segment_start by.now.platform.now) by.now.headers (in_output by.now.link.now by.now.live.now filling)) first }
    ensures { (filling : Filling) → AreFilled (in_output by.now.link.now by.now.live.now filling) owners
        → ArePlacedFirst (relaxing (P.segment_start by.now.platform.now) by.now.headers (in_output by.now.link.now by.now.live.now filling)) first
        → GivesRelaxedParts (relaxing (P.segment_start by.now.platform.now) by.now.headers (in_output by.now.link.now by.now.live.now filling)) result }
{
    laws::nothing_deleted_leaves_all();
    laws::first_is_shrunk();
    match begin(alloc, by.link, by.live, &owners) {
        Ok(Begun::Ended(deltas)) => Ok(RelaxedParts {
            owners,
            deltas,
            placed: first,
        }),
        Ok(Begun::Looks(looks)) => {
            let hand = in_hand(owners, first, looks);
            make_passes(alloc, by, hand)
        }
        Err(error) => Err(PlaceError::from(error)),
    }
}

/// Relaxes a link that is sized by its description, with the images and the blocks of thunks that are so many bytes long, and whose
/// sizes fit; `first` is its placement. The rest is as for `relax_owners` (libwild: `perform_iterative_relaxation`).
pub fn perform_iterative_relaxation<P: Platform>(
    alloc: Global,
    by: &Relaxation<'_, P>,
    merged_lens: &[u64],
    thunk_owners: &[(FileId, u64)],
    first: Placed,
) -> Result<Relaxed, PlaceError>
    requires good { IsWellFormed by.now.link.now }
    requires live { AreLive by.now.link.now by.now.live.now }
    requires thunks { AreThunkOwners by.now.link.now thunk_owners.now }
    requires fits { size_refusal (own_filling by.now.link.now (P.table_sizes by.now.platform.now) by.now.live.now merged_lens.now thunk_owners.now) ≡ None }
    requires first { ArePlacedFirst (relaxing (P.segment_start by.now.platform.now) by.now.headers (own_filling by.now.link.now (P.table_sizes by.now.platform.now) by.now.live.now merged_lens.now thunk_owners.now)) first }
    ensures { GivesRelaxedLink (relaxing (P.segment_start by.now.platform.now) by.now.headers (own_filling by.now.link.now (P.table_sizes by.now.platform.now) by.now.live.now merged_lens.now thunk_owners.now)) result }
{
    let owners = own_owners(alloc, by, merged_lens, thunk_owners)?;
    let parts = relax_owners(alloc, by, owners, first)?;
    let sizes = sizes_after(alloc, by.link, &parts.deltas)?;
    Ok(Relaxed {
        sizes,
        deltas: parts.deltas,
        placed: parts.placed,
    })
}

/// What comes into the parts by the sizes of the description, where these fit.
fn own_owners<P: Platform>(
    alloc: Global,
    by: &Relaxation<'_, P>,
    merged_lens: &[u64],
    thunk_owners: &[(FileId, u64)],
) -> Result<PartOwners, AllocError>
    requires good { IsWellFormed by.now.link.now }
    requires live { AreLive by.now.link.now by.now.live.now }
    requires thunks { AreThunkOwners by.now.link.now thunk_owners.now }
    requires fits { size_refusal (own_filling by.now.link.now (P.table_sizes by.now.platform.now) by.now.live.now merged_lens.now thunk_owners.now) ≡ None }
    ensures { IfOk result (AreFilled (own_filling by.now.link.now (P.table_sizes by.now.platform.now) by.now.live.now merged_lens.now thunk_owners.now)) }
{
    let plain = fitting(plain_owners(alloc, by.link, by.platform, by.live, merged_lens))?;
    fitting(add_thunks(alloc, by.link, plain, thunk_owners))
}

/// What sizing answers where the sizes fit.
fn fitting(found: Result<PartOwners, SizeError>) -> Result<PartOwners, AllocError>
    requires { Fits found }
    ensures { IfOk result (λ owners. found ≡ Ok owners) }
{
    match found {
        Ok(owners) => Ok(owners),
        Err(SizeError::NoMemory) => Err(AllocError),
        Err(SizeError::AddressOverflow { .. }) => unreachable!(),
    }
}

/// What relaxation begins with. What this answers holds no part of what comes into the parts, so that all that can lack memory is behind
/// when that moves on.
fn begin(
    alloc: Global,
    link: &LinkInput,
    live: &Live,
    owners: &PartOwners,
) -> Result<Begun, AllocError>
    requires good { IsWellFormed link.now }
    requires live { AreLive link.now live.now }
    requires thunks { AreThunkOwners link.now owners.now.thunks }
    requires own { unwrap_or owners.now.sizes (own_sizes link.now) ≡ own_sizes link.now }
    requires filled { (filling : Filling) × AreFilled (in_output link.now live.now filling) owners.now }
    ensures { (filling : Filling) → AreFilled (in_output link.now live.now filling) owners.now
        → IfOk result (HasBegun (in_output link.now live.now filling)) }
{
    laws::nothing_deleted_leaves_all();
    let deltas = no_deltas(alloc, link)?;
    let scan = first_scan(alloc, link, live)?;
    if scan.is_empty() {
        return Ok(Begun::Ended(deltas));
    }
    let (sections, symbols) = compute_input_section_positions(alloc, link, live, owners, &deltas)?;
    Ok(Begun::Looks(Looks {
        deltas,
        scan,
        sections,
        symbols,
    }))
}

/// The first stage: with what comes into the parts, and its placement.
fn in_hand(owners: PartOwners, first: Placed, looks: Looks) -> InHand
    ensures { result ≡ in_hand owners first looks }
{
    InHand {
        owners,
        deltas: looks.deltas,
        placed: first,
        scan: looks.scan,
        sections: looks.sections,
        symbols: looks.symbols,
    }
}

/// Makes passes from the first stage on.
fn make_passes<P: Platform>(
    alloc: Global,
    by: &Relaxation<'_, P>,
    hand: InHand,
) -> Result<RelaxedParts, PlaceError>
    requires good { IsWellFormed by.now.link.now }
    requires live { AreLive by.now.link.now by.now.live.now }
    requires first { (filling : Filling)
        × (is : IsStage (relaxing (P.segment_start by.now.platform.now) by.now.headers (in_output by.now.link.now by.now.live.now filling)) hand)
        × IsFirst (relaxing (P.segment_start by.now.platform.now) by.now.headers (in_output by.now.link.now by.now.live.now filling)) (stage_in hand is) }
    ensures { (filling : Filling)
        (is : IsStage (relaxing (P.segment_start by.now.platform.now) by.now.headers (in_output by.now.link.now by.now.live.now filling)) hand)
        → IsFirst (relaxing (P.segment_start by.now.platform.now) by.now.headers (in_output by.now.link.now by.now.live.now filling)) (stage_in hand is)
        → GivesRelaxedParts (relaxing (P.segment_start by.now.platform.now) by.now.headers (in_output by.now.link.now by.now.live.now filling)) result }
{
    let mut hand = hand;
    for _pass in 0..PASSES {
        if hand.scan.is_empty() {
            return Ok(end_of(hand));
        }
        match turn(alloc, by, hand)? {
            Turned::Last(parts) => return Ok(parts),
            Turned::Next(next) => hand = next,
        }
    }
    Ok(end_of(hand))
}

/// What a stage leaves where it is the last.
fn end_of(hand: InHand) -> RelaxedParts
    ensures { result ≡ end_of hand }
{
    RelaxedParts {
        owners: hand.owners,
        deltas: hand.deltas,
        placed: hand.placed,
    }
}

/// A pass from a stage with sections to look at, and where capacities fell by it, the next placement.
fn turn<P: Platform>(
    alloc: Global,
    by: &Relaxation<'_, P>,
    hand: InHand,
) -> Result<Turned, PlaceError>
    requires good { IsWellFormed by.now.link.now }
    requires live { AreLive by.now.link.now by.now.live.now }
    requires some { 0 < length hand.scan.items }
    requires stage { (filling : Filling) × IsStage (relaxing (P.segment_start by.now.platform.now) by.now.headers (in_output by.now.link.now by.now.live.now filling)) hand }
    ensures { (filling : Filling)
        (is : IsStage (relaxing (P.segment_start by.now.platform.now) by.now.headers (in_output by.now.link.now by.now.live.now filling)) hand)
        → GivesTurn (relaxing (P.segment_start by.now.platform.now) by.now.headers (in_output by.now.link.now by.now.live.now filling)) (stage_in hand is) hand result }
{
    laws::passes_stay_shrunk();
    let passed = pass(alloc, by.link, by.live, hand)?;
    if passed.fall == 0 {
        return Ok(Turned::Last(RelaxedParts {
            owners: passed.owners,
            deltas: passed.deltas,
            placed: passed.placed,
        }));
    }
    let next = place_anew(alloc, by, passed)?;
    Ok(Turned::Next(next))
}

/// Places all parts by what is deleted behind a pass.
fn place_anew<P: Platform>(
    alloc: Global,
    by: &Relaxation<'_, P>,
    passed: Passed,
) -> Result<InHand, PlaceError>
    requires good { IsWellFormed by.now.link.now }
    requires live { AreLive by.now.link.now by.now.live.now }
    requires thunks { AreThunkOwners by.now.link.now passed.owners.thunks }
    requires filled { (filling : Filling)
        × AreFilled (filling_after (relaxing (P.segment_start by.now.platform.now) by.now.headers (in_output by.now.link.now by.now.live.now filling)) passed.deltas.items) passed.owners }
    ensures { (filling : Filling)
        → AreFilled (filling_after (relaxing (P.segment_start by.now.platform.now) by.now.headers (in_output by.now.link.now by.now.live.now filling)) passed.deltas.items) passed.owners
        → GivesAnew (relaxing (P.segment_start by.now.platform.now) by.now.headers (in_output by.now.link.now by.now.live.now filling)) passed result }
{
    match make_places(alloc, by, &passed.owners, &passed.deltas) {
        Ok(places) => Ok(InHand {
            owners: passed.owners,
            deltas: passed.deltas,
            placed: places.placed,
            scan: passed.scan,
            sections: places.sections,
            symbols: places.symbols,
        }),
        Err(error) => Err(error),
    }
}

/// Where all stands by what comes into the parts behind what is deleted.
fn make_places<P: Platform>(
    alloc: Global,
    by: &Relaxation<'_, P>,
    owners: &PartOwners,
    deltas: &[RelaxDeltaMap],
) -> Result<LinkPositions, PlaceError>
    requires good { IsWellFormed by.now.link.now }
    requires live { AreLive by.now.link.now by.now.live.now }
    requires thunks { AreThunkOwners by.now.link.now owners.now.thunks }
    requires filled { (filling : Filling)
        × AreFilled (filling_after (relaxing (P.segment_start by.now.platform.now) by.now.headers (in_output by.now.link.now by.now.live.now filling)) deltas.now) owners.now }
    ensures { (filling : Filling)
        → AreFilled (filling_after (relaxing (P.segment_start by.now.platform.now) by.now.headers (in_output by.now.link.now by.now.live.now filling)) deltas.now) owners.now
        → GivesPlaces (relaxing (P.segment_start by.now.platform.now) by.now.headers (in_output by.now.link.now by.now.live.now filling)) deltas.now result }
{
    let (sections, symbols) = compute_input_section_positions(
        alloc, by.link, by.live, owners, deltas,
    )?;
    let sizes = part_sizes(alloc, owners)?;
    let placed = compute_layout_sections(
        alloc,
        by.link,
        &sizes,
        &symbols,
        by.headers,
        by.platform,
    )?;
    Ok(LinkPositions {
        sections,
        symbols,
        placed,
    })
}

/// Nothing deleted: an empty map for each file.
fn no_deltas(alloc: Global, link: &LinkInput) -> Result<Vec<RelaxDeltaMap>, AllocError>
    requires { IsWellFormed link.now }
    ensures { IfOk result (λ deltas. deltas.items ≡ nothing_deleted link.now) }
{
    let count = link.groups.file_count() as usize;
    let mut deltas = Vec::with_capacity(alloc, count)?;
    for _file in link.groups.files() {
        deltas.push(RelaxDeltaMap::new(alloc))?;
    }
    Ok(deltas)
}

/// The sections that the first pass looks at, if the link is to be relaxed: those that can lose bytes.
fn first_scan(
    alloc: Global,
    link: &LinkInput,
    live: &Live,
) -> Result<Vec<(FileId, u32)>, AllocError>
    requires { IsWellFormed link.now }
    ensures { IfOk result (λ scan. scan.items ≡ first_sections link.now live.now) }
{
    let mut scan = Vec::new(alloc);
    if !link.options.relax {
        return Ok(scan);
    }
    let marks = live.marks.as_slice();
    let mut number = 0;
    for input in link.groups.inputs() {
        if can_shrink(marks, number, input.section) {
            scan.push((input.file, input.index as u32))?;
        }
        number += 1;
    }
    Ok(scan)
}

/// Whether a section with this number can lose bytes: it is live, has a position, and is code with candidates.
fn can_shrink(marks: &[bool], number: usize, section: &InputSection) -> bool
    ensures { result ≡ can_shrink_by marks.now (number, section.now) }
{
    is_marked(marks, number)
        && section.slot.is_regular()
        && !section.sorted
        && section.attrs & attributes::EXEC != 0
        && !section.relax.is_empty()
}
