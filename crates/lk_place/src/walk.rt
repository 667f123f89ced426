//! The placement walk over the events of the plan.
//!
//! The walk goes through the events once, with a cursor in the file and one in memory. A load segment moves memory to where
//! the platform lets it begin; a section places its parts from the cursors on and moves them behind the last. A load segment, and a
//! section that isn't zero-fill thread-local data, begin where memory stood before any that is; the first of a run of thread-local
//! sections begins at the greatest alignment of all. A location waits for the next section, which begins there. A section that names
//! a load address is loaded from it. The records go into one table by part number, which the walk is lent, so that it takes no
//! memory; expressions read those of what is placed, which another table tells that is made before. It ends at the first event that
//! is refused.

ghost use Rattle.std.specs.Prelude.{◌≡◌, ◌<◌, ◌^◌, ◌&&◌, ◌++◌, ℕ, Ok, Some, if◌then◌else◌, SomeIff, IfOk, OnOk, length, nat_lt, slice_get, true};
ghost use Rattle.lk_link.specs.Inside.{placed_section};
ghost use Rattle.lk_link.specs.Parts.{all_parts};
ghost use Rattle.lk_link.specs.WellFormed.{IsInRange, IsWellFormed};
ghost use Rattle.lk_link.specs.Target.{platform_target};
ghost use Rattle.lk_place.specs.Alignments.{place_alignment};
ghost use Rattle.lk_place.specs.Answers.{GivesPlaced};
ghost use Rattle.lk_place.specs.Counters.{told_counter};
ghost use Rattle.lk_place.specs.AtHand.{AreEvaluableEvents, AreEvaluableLoads, IsEvaluable, IsEvaluableEvent};
ghost use Rattle.std.specs.List.{slice_index};
ghost use Rattle.std.specs.Option.{option_map_or};
ghost use Rattle.lk_place.specs.InRegions.{span_of};
ghost use Rattle.lk_place.specs.Locations.{behind_start, within_64};
ghost use Rattle.lk_place.specs.PlacedBefore.{early_value, last_before, standing_before, value_at};
ghost use Rattle.lk_place.specs.Placement.{begun_section, carried_out, memory_moved, moved, numbered, opened, placed_by};
ghost use Rattle.lk_expressions.specs.Records.{nowhere, record_at};
ghost use Rattle.lk_place.specs.Setting.{setting_of};
ghost use Rattle.lk_place.specs.Start.{first_cursors, start};
ghost use Rattle.lk_place.specs.ThreadLocal.{begins_run, free_memory, is_in_run, padded, restoring, run_begun, saved_or_restored, saving};
ghost use Rattle.lk_link.specs.PlanSections.{is_thread_local, primary_of};
ghost use Rattle.lk_link.specs.SegmentKinds.{is_load, segment_at};
ghost use Rattle.lk_place.specs.Walk.{GivesWalked, GoesOn, IsWalkable, Rewrites, known_in, left_behind, recorded, setting_in, left_by};
ghost use Rattle.lk_place.specs.Walk.{at_event, cursors_of, rewritten};

use crate::alignments::{Alignments, compute_alignments};
use crate::cursors::Cursors;
use crate::error::{PlaceError, Refusal};
use crate::hulls::{nothing, span_sections};
use crate::locations::{not_before, open_at, refuse, take_location, wait_at};
use crate::placed_at::events_of_parts;
use crate::records_before::RecordsBefore;
use crate::regions::{SectionRegion, origins, regions_of_sections};
use crate::start::begin;
use crate::walking::{Unplaced, evaluate_before};
use lk_expressions::{NoValue, OutputRecordLayout, PlacedRecords, SymbolPositions};
use lk_link::alignment::Alignment;
use lk_link::expression::Expression;
use lk_link::fault::Place;
use lk_link::ids::{OutputSectionId, SegmentId};
use lk_link::link::LinkInput;
use lk_link::list::List;
use lk_link::plan::OrderEvent;
use lk_link::platform::Platform;
use std::alloc::{AllocError, Global};

/// The records of a placed link, by number, and the counters.
#[derive(Drop)]
pub struct Placed {
    /// Of all parts, numbered over all sections.
    pub parts: List<OutputRecordLayout>,
    /// Of all output sections.
    pub sections: List<OutputRecordLayout>,
    /// The value of the base, and then that of each event that sets the location counter, in their order.
    pub counters: List<u64>,
}

/// Cursors with memory rounded up, and with the file grown by as much where it is to be; none where one passes 2^64 - 1.
fn fit_pad(backed: bool, alignment: Alignment, from: Cursors) -> Option<Cursors>
    ensures { let to = padded backed alignment from in SomeIff result ((nat_lt to.file (2 ^ 64) && nat_lt to.memory (2 ^ 64)) ≡ true) to }
{
    let memory = alignment.align_up(from.memory)?;
    let file = if backed {
        from.file.checked_add(memory - from.memory)?
    } else {
        from.file
    };
    Some(Cursors {
        file,
        memory,
        ..from
    })
}

/// The same, or the refusal.
fn pad(backed: bool, alignment: Alignment, from: Cursors) -> Result<Cursors, Refusal>
    ensures { result ≡ within_64 (padded backed alignment from) }
{
    fit_pad(backed, alignment, from).ok_or(Refusal::Overflow)
}

/// Where memory goes on for what takes addresses: where it was saved, else where it stands.
fn free_memory(from: Cursors) -> u64
    ensures { result ≡ free_memory from }
{
    from.saved.unwrap_or(from.memory)
}

/// Cursors with memory saved, if none is.
fn saved(from: Cursors) -> Cursors
    ensures { result ≡ saving from }
{
    Cursors {
        saved: Some(free_memory(from)),
        ..from
    }
}

/// Cursors with memory where it was saved, which is saved no more.
fn restored(from: Cursors) -> Cursors
    ensures { result ≡ restoring from }
{
    Cursors {
        memory: free_memory(from),
        saved: None,
        ..from
    }
}

/// What a walk goes by: the link, the bytes of each part of its plan by number, the alignments of its sections and segments, the
/// machine, what expressions may speak of that isn't placed by it, by part the event that places it, and by section its region.
#[derive(Drop)]
pub(crate) struct Walk<'a, P: Platform> {
    pub(crate) link: &'a LinkInput,
    pub(crate) sizes: &'a [u64],
    pub(crate) alignments: &'a Alignments,
    pub(crate) platform: &'a P,
    pub(crate) unplaced: &'a Unplaced<'a>,
    pub(crate) placed_at: &'a [usize],
    pub(crate) section_regions: &'a [SectionRegion],
}

impl<P: Platform> Walk<'_, P> {
    /// The cursors where a load segment begins that is placed by this alignment.
    #[tactic(auto, using(std::proofs::lemmas::Bool::Decides::nat_tests))]
    fn begin_load(&self, place: Alignment, from: Cursors) -> Result<Cursors, Refusal>
        ensures { result ≡ memory_moved from (P.segment_start self.now.platform.now place from.file from.memory) }
    {
        match self
            .platform
            .align_load_segment_start(place, from.file, from.memory)
        {
            Some(memory) => Ok(Cursors { memory, ..from }),
            None => Err(Refusal::Overflow),
        }
    }

    /// The place alignment of a segment.
    fn place_alignment(&self, segment: SegmentId) -> Alignment
        requires walkable { IsWalkable P.segment_start self.now }
        requires in_range { segment < length self.now.link.now.plan.segments }
        ensures { result ≡ place_alignment (setting_in P.segment_start self.now) segment }
    {
        self.alignments.segments.as_slice()[segment.as_usize()]
    }

    /// The cursors behind the opening of a segment: a load segment goes on where memory was saved, and begins where the platform
    /// lets it, or at a location that waits; another moves nothing.
    fn open_segment(&self, segment: SegmentId, from: Cursors) -> Result<Cursors, Refusal>
        requires walkable { IsWalkable P.segment_start self.now }
        requires in_range { segment < length self.now.link.now.plan.segments }
        ensures { result ≡ (if is_load (segment_at self.now.link.now.plan.segments segment).kind
            then opened (setting_in P.segment_start self.now) segment (restoring from) from.pending else Ok from) }
    {
        if self.link.plan.segments.as_slice()[segment.as_usize()]
            .kind
            .is_load()
        {
            match from.pending {
                None => self.begin_load(self.place_alignment(segment), restored(from)),
                Some(location) => {
                    open_at(self.place_alignment(segment), location, restored(from))
                }
            }
        } else {
            Ok(from)
        }
    }

    /// Where memory is saved before a zero-fill thread-local section, behind which it goes on where it stood before, or goes on where
    /// it was saved before any other.
    fn saved_or_restored(&self, section: OutputSectionId, from: Cursors) -> Cursors
        ensures { result ≡ saved_or_restored self.now.link.now.plan section from }
    {
        if self.link.plan.is_zero_fill_thread_local(section) {
            saved(from)
        } else {
            restored(from)
        }
    }

    /// Whether a run of thread-local sections goes on behind an event: where that places a section, whether it is thread-local.
    fn in_run_behind(&self, event: &OrderEvent, in_run: bool) -> bool
        ensures { result ≡ option_map_or (is_thread_local self.now.link.now.plan) (placed_section event.now) in_run }
    {
        match *event {
            OrderEvent::Section(section) => self.link.plan.is_thread_local(section),
            _ => in_run,
        }
    }

    /// Whether a section begins a run of thread-local ones, where none goes on; in partial output none does.
    fn begins_run(&self, section: OutputSectionId, in_run: bool) -> bool
        ensures { result ≡ begins_run (setting_in P.segment_start self.now) in_run section }
    {
        self.link.plan.is_thread_local(section) && !in_run && !self.link.options.output.is_partial()
    }

    /// The first of a run of thread-local sections begins at the greatest alignment of all, but where it took a location.
    fn begin_run(
        &self,
        section: OutputSectionId,
        in_run: bool,
        took: bool,
        from: Cursors,
    ) -> Result<Cursors, Refusal>
        requires walkable { IsWalkable P.segment_start self.now }
        ensures { result ≡ run_begun (setting_in P.segment_start self.now) in_run section took from }
    {
        if self.begins_run(section, in_run) && !took {
            let backed = self.link.plan.is_file_backed(section);
            pad(backed, self.alignments.thread_local, from)
        } else {
            Ok(from)
        }
    }

    /// The cursors behind a section's start: it saves memory or goes on where it was saved, goes on where its region does, takes a
    /// location that waits, and may begin a run.
    fn begin_section(
        &self,
        section: OutputSectionId,
        in_run: bool,
        from: Cursors,
        goes_on: &[u64],
    ) -> Result<Cursors, Refusal>
        requires walkable { IsWalkable P.segment_start self.now }
        requires regions { length goes_on.now ≡ length self.now.link.now.plan.regions }
        ensures { result ≡ begun_section (setting_in P.segment_start self.now) (slice_index goes_on.now) in_run section from }
    {
        let saved = self.saved_or_restored(section, from);
        let there = self.enter_region(section, saved, goes_on)?;
        let inside = self.stay_inside(section, there, from.pending)?;
        let taken = take_location(&self.link.plan, section, inside, from.pending)?;
        self.begin_run(section, in_run, from.pending.is_some(), taken)
    }

    /// The value of an expression at some cursors, by the records of what is placed before an event.
    pub(crate) fn early_value(
        &self,
        event: usize,
        expression: &Expression,
        from: Cursors,
        records: &[OutputRecordLayout],
    ) -> Result<u64, NoValue>
        requires walkable { IsWalkable P.segment_start self.now }
        requires each { length records.now ≡ length (all_parts self.now.link.now.plan.sections) }
        requires walked { IsEvaluable self.now.link.now.plan expression.now }
        ensures { result ≡ early_value (setting_in P.segment_start self.now)
            (standing_before self.now.link.now.plan records.now event) from expression.now }
    {
        let before = RecordsBefore {
            sections: &self.link.plan.sections,
            events: self.placed_at,
            records,
            event,
        };
        let dot = from.pending.unwrap_or(from.memory);
        evaluate_before(self.unplaced, &before, dot, expression)
    }

    /// The same, or the refusal.
    fn value(
        &self,
        event: usize,
        expression: &Expression,
        from: Cursors,
        records: &[OutputRecordLayout],
    ) -> Result<u64, Refusal>
        requires walkable { IsWalkable P.segment_start self.now }
        requires each { length records.now ≡ length (all_parts self.now.link.now.plan.sections) }
        requires walked { IsEvaluable self.now.link.now.plan expression.now }
        ensures { result ≡ value_at (setting_in P.segment_start self.now)
            (standing_before self.now.link.now.plan records.now event) from expression.now }
    {
        refuse(self.early_value(event, expression, from, records))
    }

    /// A location that isn't to be before the start of a section's primary, where that is placed before an event.
    fn stay_behind(
        &self,
        event: usize,
        section: OutputSectionId,
        location: Result<u64, Refusal>,
        records: &[OutputRecordLayout],
    ) -> Result<u64, Refusal>
        requires walkable { IsWalkable P.segment_start self.now }
        requires each { length records.now ≡ length (all_parts self.now.link.now.plan.sections) }
        ensures { let standing = standing_before self.now.link.now.plan records.now event
            in result ≡ behind_start (standing.section (primary_of self.now.link.now.plan.sections section)) location }
    {
        let before = RecordsBefore {
            sections: &self.link.plan.sections,
            events: self.placed_at,
            records,
            event,
        };
        let primary = self.link.plan.sections.primary_of(section);
        not_before(before.section(primary), location)
    }

    /// The cursors after what an event does before it places a section. `in_run` tells whether a run of thread-local sections goes
    /// on.
    fn moved(
        &self,
        number: usize,
        event: &OrderEvent,
        in_run: bool,
        from: Cursors,
        records: &[OutputRecordLayout],
        goes_on: &[u64],
    ) -> Result<Cursors, Refusal>
        requires walkable { IsWalkable P.segment_start self.now }
        requires in_range { IsInRange self.now.link.now.plan event.now }
        requires each { length records.now ≡ length (all_parts self.now.link.now.plan.sections) }
        requires walked { IsEvaluableEvent self.now.link.now.plan event.now }
        requires regions { length goes_on.now ≡ length self.now.link.now.plan.regions }
        requires run { in_run ≡ is_in_run self.now.link.now.plan (last_before self.now.link.now.plan.events number) }
        ensures { result ≡ moved (setting_in P.segment_start self.now)
            (known_in self.now.link.now.plan records.now goes_on.now number) event.now from }
    {
        match event {
            OrderEvent::SegmentStart(segment) => self.open_segment(*segment, from),
            OrderEvent::SegmentEnd(_) => Ok(from),
            OrderEvent::Section(section) => self.begin_section(*section, in_run, from, goes_on),
            OrderEvent::SetLocation(location) => {
                wait_at(from, self.value(number, location, from, records))
            }
            OrderEvent::SetLocationRelative(location, section) => {
                let value = self.value(number, location, from, records);
                wait_at(from, self.stay_behind(number, *section, value, records))
            }
            OrderEvent::SetSectionAddress(location) => {
                wait_at(from, self.value(number, location, from, records))
            }
        }
    }

    /// Places the section of an event, if it has one, and answers the cursors behind it. Its region goes on there.
    #[tactic(auto, unfolding(crate::specs::Walk::rewritten, crate::specs::Walk::left_behind))]
    fn place(
        &self,
        number: usize,
        event: &OrderEvent,
        from: Cursors,
        records: &mut [OutputRecordLayout],
        goes_on: &mut [u64],
    ) -> Result<Cursors, Refusal>
        requires walkable { IsWalkable P.segment_start self.now }
        requires in_range { IsInRange self.now.link.now.plan event.now }
        requires here { slice_get self.now.link.now.plan.events number ≡ Some event.now }
        requires each { length records.old ≡ length (all_parts self.now.link.now.plan.sections) }
        requires regions { length goes_on.old ≡ length self.now.link.now.plan.regions }
        requires loads { AreEvaluableLoads self.now.link.now.plan }
        ensures ends { let setting = setting_in P.segment_start self.now in let s = placed_section event.now
            in result ≡ cursors_of (placed_by setting (standing_before setting.plan records.old number) s from) }
        ensures records { let setting = setting_in P.segment_start self.now
            in OnOk result (Rewrites (rewritten setting (standing_before setting.plan records.old number) (placed_section event.now) from) records.old records.new) }
        ensures goes_on { let setting = setting_in P.segment_start self.now
            in OnOk result (GoesOn setting.plan (Some event.now) (left_behind setting (placed_section event.now) from) goes_on.old goes_on.new) }
    {
        match *event {
            OrderEvent::Section(section) => {
                let behind = self.place_loaded(number, section, from, records)?;
                self.leave_region(section, behind, goes_on)
            }
            _ => Ok(from),
        }
    }

    /// Carries out an event: it moves the cursors, and then places its section, if it has one. Answers the cursors behind
    /// it. `in_run` tells whether a run of thread-local sections goes on.
    fn carry_out(
        &self,
        number: usize,
        event: &OrderEvent,
        in_run: bool,
        from: Cursors,
        records: &mut [OutputRecordLayout],
        goes_on: &mut [u64],
    ) -> Result<Cursors, Refusal>
        requires walkable { IsWalkable P.segment_start self.now }
        requires in_range { IsInRange self.now.link.now.plan event.now }
        requires each { length records.old ≡ length (all_parts self.now.link.now.plan.sections) }
        requires regions { length goes_on.old ≡ length self.now.link.now.plan.regions }
        requires here { slice_get self.now.link.now.plan.events number ≡ Some event.now }
        requires run { in_run ≡ is_in_run self.now.link.now.plan (last_before self.now.link.now.plan.events number) }
        requires walked { IsEvaluableEvent self.now.link.now.plan event.now }
        requires loads { AreEvaluableLoads self.now.link.now.plan }
        ensures ends { let setting = setting_in P.segment_start self.now in let known = known_in setting.plan records.old goes_on.old number
            in result ≡ cursors_of (carried_out setting known event.now from) }
        ensures records { let setting = setting_in P.segment_start self.now in let known = known_in setting.plan records.old goes_on.old number
            in OnOk result (Rewrites (recorded setting known (Some event.now) from) records.old records.new) }
        ensures goes_on { let setting = setting_in P.segment_start self.now in let known = known_in setting.plan records.old goes_on.old number
            in OnOk result (GoesOn setting.plan (Some event.now) (left_by setting known (Some event.now) from) goes_on.old goes_on.new) }
    {
        let entered = self.moved(number, event, in_run, from, &*records, &*goes_on)?;
        self.place(number, event, entered, records, goes_on)
    }

    /// Carries out all events in their order, up to the first that is refused. `records` has nothing yet, and `goes_on` the origin of
    /// each region. Adds to the counters what each event tells that sets the location counter.
    fn walk(
        &self,
        base: u64,
        records: &mut [OutputRecordLayout],
        goes_on: &mut [u64],
        counters: &mut Vec<u64>,
    ) -> Result<(), PlaceError>
        requires walkable { IsWalkable P.segment_start self.now }
        requires starts { start (setting_in P.segment_start self.now) ≡ Ok (first_cursors base) }
        requires each { length records.old ≡ length (all_parts self.now.link.now.plan.sections) }
        requires nothing { (p : ℕ) → record_at records.old p ≡ nowhere }
        requires regions { length goes_on.old ≡ length self.now.link.now.plan.regions }
        requires origins { (r : ℕ) → slice_index goes_on.old r ≡ (span_of (setting_in P.segment_start self.now) r).0 }
        requires walked { AreEvaluableEvents self.now.link.now.plan }
        requires loads { AreEvaluableLoads self.now.link.now.plan }
        ensures { GivesWalked (setting_in P.segment_start self.now) result records.new counters.old.items counters.new.items }
    {
        let mut cursors = Cursors {
            file: 0,
            memory: base,
            saved: None,
            pending: None,
        };
        let mut in_run = false;
        for (number, event) in self.link.plan.events.as_slice().iter().enumerate() {
            let end = self.carry_out(number, event, in_run, cursors, records, goes_on);
            cursors = at_event(end, number)?;
            in_run = self.in_run_behind(event, in_run);
            tell_counter(event, cursors.pending, counters)?;
        }
        Ok(())
    }
}

/// Adds the location that waits behind an event, if the event sets the location counter.
fn tell_counter(
    event: &OrderEvent,
    waiting: Option<u64>,
    counters: &mut Vec<u64>,
) -> Result<(), AllocError>
    ensures { OnOk result (counters.new.items ≡ counters.old.items ++ told_counter event.now waiting) }
{
    if event.is_location() {
        match waiting {
            None => {}
            Some(location) => counters.push(location)?,
        }
    }
    Ok(())
}

/// The refusal of an event, with its number.
fn numbered(event: usize, refusal: Refusal) -> PlaceError
    ensures { result ≡ numbered event refusal }
{
    match refusal {
        Refusal::Overflow => PlaceError::AddressOverflow {
            place: Place::Event(event),
        },
        Refusal::NoValue(cause) => PlaceError::Expression {
            place: Place::Event(event),
            cause,
        },
        Refusal::Backwards { from, to } => PlaceError::LocationBackwards { from, to },
        Refusal::Undeclared(section) => PlaceError::RegionUnknown { section },
        Refusal::Outside(address) => PlaceError::OutsideRegion { event, address },
        Refusal::Past { region, by } => PlaceError::RegionOverflow { region, by },
        Refusal::NoLoadAddress { section, cause } => PlaceError::Expression {
            place: Place::Section(section.as_usize()),
            cause,
        },
    }
}

/// Tells at which event the walk was refused.
fn at_event(end: Result<Cursors, Refusal>, event: usize) -> Result<Cursors, PlaceError>
    ensures { result ≡ at_event end event }
{
    match end {
        Ok(cursors) => Ok(cursors),
        Err(refusal) => Err(numbered(event, refusal)),
    }
}

/// A record of nothing for each part.
fn unplaced(alloc: Global, parts: usize) -> Result<Vec<OutputRecordLayout>, AllocError>
    ensures count { IfOk result (λ records. length records.items ≡ parts) }
    ensures nothing { IfOk result (λ records. (p : ℕ) → record_at records.items p ≡ nowhere) }
{
    let mut records = Vec::with_capacity(alloc, parts)?;
    for _ in 0..parts {
        records.push(nothing())?;
    }
    Ok(records)
}

/// Where all parts and output sections stand, by the bytes of each part, the bytes of the headers and the places of symbols; or the
/// first refusal: of a region, in their order, of the base, or of an event, where a number passes 2^64 - 1, an expression has no
/// value, a location stands before where it may or outside a region, or a region isn't declared or is full.
/// Offsets and addresses are in bytes (libwild: `compute_layout_sections`).
pub fn compute_layout_sections<P: Platform>(
    alloc: Global,
    link: &LinkInput,
    sizes: &[u64],
    positions: &SymbolPositions,
    headers: u64,
    platform: &P,
) -> Result<Placed, PlaceError>
    requires well_formed { IsWellFormed link.now }
    requires each { length sizes.now ≡ length (all_parts link.now.plan.sections) }
    ensures { GivesPlaced (setting_of link.now (platform_target (P.segment_start platform.now)) sizes.now headers positions.now) result }
{
    let beginning = begin(alloc, link, headers)?;
    let alignments = compute_alignments(alloc, link, sizes)?;
    let mut parts = unplaced(alloc, sizes.len())?;
    let placed_at = events_of_parts(alloc, &link.plan)?;
    let section_regions = regions_of_sections(alloc, &link.plan)?;
    let mut goes_on = origins(alloc, beginning.regions.as_slice())?;
    let unplaced = Unplaced {
        link,
        headers,
        regions: beginning.regions.as_slice(),
        constants: &beginning.constants,
        positions,
    };
    let walk = Walk {
        link,
        sizes,
        alignments: &alignments,
        platform,
        unplaced: &unplaced,
        placed_at: &placed_at,
        section_regions: &section_regions,
    };
    let mut counters = Vec::with_capacity(alloc, 1)?;
    counters.push(beginning.base)?;
    walk.walk(beginning.memory, &mut parts, &mut goes_on, &mut counters)?;
    let sections = span_sections(alloc, &link.plan.sections, &parts)?;
    Ok(Placed {
        parts: List::from_vec(parts),
        sections: List::from_vec(sections),
        counters: List::from_vec(counters),
    })
}
