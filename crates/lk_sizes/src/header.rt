//! Which output sections are emitted, their indexes in the output, and which segments are active.
//!
//! What is told of a section may depend on whether anything went into it: an output file has no header for a section that
//! stayed empty, unless the plan wants one. Each step is a pass over the plan.
//!
//! First, which sections are kept: those that the plan always emits, those that what is live keeps, whatever its bytes, those at
//! whose edges a symbol of the prelude stands that something refers to, and those with a part that has bytes by its first size. The
//! first sizes go by the input sections as they are described, and by the entries of tables that are known by then: whether a
//! section is emitted must be known before later steps, which may change sizes, can run. Then the marks of
//! secondary sections move to their primaries, since both stand in the output as one section, and sections that the plan
//! never emits lose theirs, as does the section of singletons, whose input sections are told one by one. The marked ones are
//! numbered in the order in which events place them; a section that no event places has no index.
//!
//! At last the active segments, which are those with a header. Where the program headers were asked for, every segment has
//! one, since the plan then says what the headers are. Else it is those that the plan always wants, those for the stack,
//! which has no sections inside, and those in which an emitted section stands. Partial output, which is linked again
//! before anything loads it, has none.

ghost use Rattle.std.specs.Prelude.{◌≡◌, ◌==◌, ◌&&◌, ◌||◌, ◌<◌, ◌≤◌, ◌^◌, ◌+◌, ◌++◌, ◌∷◌, [], ℕ, List, All, Some, None, IfOk, OnOk, filter};
ghost use Rattle.std.specs.Prelude.{if◌then◌else◌, length, map, nat_lt, not};
ghost use Rattle.std.specs.List.{enumerate_from, list_any, position_from, slice_index_or};
ghost use Rattle.lk_link.specs.Files.{first_some};
ghost use Rattle.lk_link.specs.EmitKinds.{is_always};
ghost use Rattle.lk_link.specs.Inside.{segment_insides};
ghost use Rattle.lk_link.specs.Marks.{is_marked};
ghost use Rattle.lk_link.specs.OutputKinds.{is_partial};
ghost use Rattle.lk_link.specs.Parts.{all_parts};
ghost use Rattle.lk_link.specs.PlanSections.{primary_of, section_at};
ghost use Rattle.lk_link.specs.SegmentKinds.{is_stack};
ghost use Rattle.lk_link.specs.TableSizes.{TableSizes};
ghost use Rattle.lk_link.specs.WellFormed.{IsInRange, IsWellFormed};
ghost use Rattle.lk_sizes.specs.Attributes.{by_section};
ghost use Rattle.lk_tables.specs.HeaderParts.{event_sections};
ghost use Rattle.lk_sizes.specs.Emitted.{can_be_emitted, has_content, is_emitted, is_kept, is_kept_by_symbol};
ghost use Rattle.lk_sizes.specs.Header.{header_info};
ghost use Rattle.lk_sizes.specs.Tables.{active_by, edges_by, in_section, placed_count};
ghost use Rattle.lk_sizes.specs.Owners.{AreFirstSizes, content_of};

use crate::kept_symbols::mark_kept_by_symbols;
use lk_live::Live;
use lk_link::limits::{EVENTS, SEGMENTS};
use lk_link::marks::is_marked;
use lk_link::{
    LinkInput, List, OrderEvent, OutputSectionId, PartId, Plan, PlanSections, PlanSegment,
    SegmentId,
};
use lk_tables::{HeaderInfo, singleton_sizes};
use std::alloc::{AllocError, Global};

/// What the headers tell, by what is live and the first sizes of the parts in bytes (libwild: `determine_header_sizes`).
/// Looks at each section and its parts once, and at each event once for the sections and once for each segment.
pub fn determine_header_sizes(
    alloc: Global,
    link: &LinkInput,
    live: &Live,
    first_sizes: &[u64],
) -> Result<HeaderInfo, AllocError>
    requires good { IsWellFormed link.now }
    requires sizes { length first_sizes.now ≡ length (all_parts link.now.plan.sections) }
    ensures header { (sizes : TableSizes) (lens : List ℕ) → AreFirstSizes (content_of link.now sizes live.now lens) first_sizes.now
        → IfOk result (λ header. header ≡ header_info (content_of link.now sizes live.now lens)) }
    ensures marks { (sizes : TableSizes) (lens : List ℕ) → AreFirstSizes (content_of link.now sizes live.now lens) first_sizes.now
        → IfOk result (λ header. is_marked header.emitted ≡ is_emitted (content_of link.now sizes live.now lens)) }
{
    let emitted = mark_emitted(alloc, link, live, first_sizes)?;
    let indexes = index_emitted(alloc, &link.plan, &emitted)?;
    let insides = link.plan.sections_of_segments(alloc)?;
    let active = find_active(alloc, link, &emitted, &insides)?;
    let told = mark_told(alloc, link, &emitted)?;
    let (singletons, name_bytes) = singleton_sizes(link, live);
    let count = count_emitted(link.plan.events.as_slice(), &emitted) + singletons;
    Ok(HeaderInfo {
        emitted: List::from_vec(emitted),
        told: List::from_vec(told),
        output_section_indexes: List::from_vec(indexes),
        active_segment_ids: List::from_vec(active),
        num_output_sections_with_content: count,
        partial_link_section_name_bytes: name_bytes,
    })
}

/// Whether a part has bytes, by these sizes.
fn have_bytes(sizes: &[u64]) -> bool
    ensures { result ≡ list_any (λ n. nat_lt 0 n) sizes.now }
{
    sizes.iter().any(|size| *size > 0)
}

/// For each output section, whether it is emitted.
fn mark_emitted(
    alloc: Global,
    link: &LinkInput,
    live: &Live,
    first_sizes: &[u64],
) -> Result<Vec<bool>, AllocError>
    requires good { IsWellFormed link.now }
    requires sizes { length first_sizes.now ≡ length (all_parts link.now.plan.sections) }
    ensures count { IfOk result (λ emitted. length emitted.items ≡ length link.now.plan.sections) }
    ensures emitted { (sizes : TableSizes) (lens : List ℕ) → AreFirstSizes (content_of link.now sizes live.now lens) first_sizes.now
        → IfOk result (λ emitted. emitted.items ≡ by_section (is_emitted (content_of link.now sizes live.now lens)) link.now) }
{
    let by_symbols = mark_kept_by_symbols(alloc, link, live)?;
    let kept = mark_kept(alloc, link, live, &by_symbols, first_sizes)?;
    let marks = mark_primaries(alloc, &link.plan.sections, &kept)?;
    let emitted = leave_out(alloc, &link.plan, &marks)?;
    Ok(emitted)
}

/// Whether an output section is kept: the plan always emits it, what is live keeps it, a symbol does, or one of its parts has bytes.
#[tactic(auto, using(lk_link::proofs::PartNumbers::part_numbers))]
fn is_kept(
    plan: &Plan,
    section: usize,
    live: &Live,
    by_symbols: &[bool],
    first_sizes: &[u64],
) -> bool
    requires within { section < length plan.now.sections }
    requires sizes { length first_sizes.now ≡ length (all_parts plan.now.sections) }
    ensures { result ≡ (is_always (section_at plan.now.sections section).emit || is_marked live.now.kept section || is_marked by_symbols.now section
        || list_any (λ n. nat_lt 0 n) (in_section plan.now.sections section first_sizes.now)) }
{
    let (first, behind) = plan.sections.part_range(section);
    let emit = plan.sections.as_slice()[section].emit;
    emit.is_always()
        || is_marked(live.kept.as_slice(), section)
        || is_marked(by_symbols, section)
        || have_bytes(&first_sizes[first..behind])
}

/// For each output section, whether it is kept, by marks of those that symbols keep.
fn mark_kept(
    alloc: Global,
    link: &LinkInput,
    live: &Live,
    by_symbols: &[bool],
    first_sizes: &[u64],
) -> Result<Vec<bool>, AllocError>
    requires symbols { (s : ℕ) → s < length link.now.plan.sections → is_marked by_symbols.now s ≡ is_kept_by_symbol link.now live.now s }
    requires sizes { length first_sizes.now ≡ length (all_parts link.now.plan.sections) }
    ensures count { IfOk result (λ kept. length kept.items ≡ length link.now.plan.sections) }
    ensures kept { (sizes : TableSizes) (lens : List ℕ) → AreFirstSizes (content_of link.now sizes live.now lens) first_sizes.now
        → IfOk result (λ kept. kept.items ≡ by_section (is_kept (content_of link.now sizes live.now lens)) link.now) }
{
    let plan = &link.plan;
    let mut kept = Vec::with_capacity(alloc, plan.sections.len())?;
    for number in 0..plan.sections.len() {
        kept.push(is_kept(plan, number, live, by_symbols, first_sizes))?;
    }
    Ok(kept)
}

/// For each output section, whether it or one that is secondary to it is kept. A secondary section has no mark of its own.
fn mark_primaries(
    alloc: Global,
    sections: &PlanSections,
    kept: &[bool],
) -> Result<Vec<bool>, AllocError>
    requires count { length kept.now ≡ length sections.now }
    requires few { length sections.now < 2 ^ 32 }
    ensures count { IfOk result (λ marks. length marks.items ≡ length sections.now) }
    ensures marks { IfOk result (λ marks. (s : ℕ) → s < length sections.now
        → is_marked marks.items s
        ≡ list_any (λ q. primary_of sections.now q.0 == s && is_marked kept.now q.0) (enumerate_from 0 sections.now)) }
{
    let mut marks = vec![in alloc; false; sections.len()]?;
    for (number, is_kept) in kept.iter().enumerate() {
        let primary = sections.primary_of(OutputSectionId::from_u32(number as u32));
        set_mark(&mut marks, primary.as_usize(), *is_kept);
    }
    Ok(marks)
}

/// Sets the mark at this place, if there is one, and if it is to be set.
fn set_mark(marks: &mut [bool], place: usize, set: bool)
    ensures { (s : ℕ) → s < length marks.old → is_marked marks.new s ≡ (is_marked marks.old s || (place == s && set)) }
{
    if set && place < marks.len() {
        marks[place] = true;
    }
}

/// The marks without those of sections that the plan never emits, and of that of singletons.
fn leave_out(alloc: Global, plan: &Plan, marks: &[bool]) -> Result<Vec<bool>, AllocError>
    requires count { length marks.now ≡ length plan.now.sections }
    requires few { length plan.now.sections < 2 ^ 32 }
    ensures { IfOk result (λ left. left.items
        ≡ map (λ q. is_marked marks.now q.0 && can_be_emitted plan.now q.0) (enumerate_from 0 plan.now.sections)) }
{
    let mut left = Vec::with_capacity(alloc, marks.len())?;
    for number in 0..marks.len() {
        left.push(stays(plan, OutputSectionId::from_u32(number as u32), marks))?;
    }
    Ok(left)
}

/// Whether a section has a mark and can be emitted.
fn stays(plan: &Plan, section: OutputSectionId, marks: &[bool]) -> bool
    requires { section < length plan.now.sections }
    ensures { result ≡ (is_marked marks.now section && can_be_emitted plan.now section) }
{
    is_marked(marks, section.as_usize()) && can_be_emitted(plan, section)
}

/// Whether a section can be emitted: the plan doesn't say never, and it isn't that of singletons.
fn can_be_emitted(plan: &Plan, section: OutputSectionId) -> bool
    requires { section < length plan.now.sections }
    ensures { result ≡ can_be_emitted plan.now section }
{
    let emit = plan.sections.as_slice()[section.as_usize()].emit;
    !emit.is_never() && !plan.is_singletons(section)
}

/// Whether a section has a part that is no table.
fn has_content(plan: &Plan, section: usize) -> bool
    requires within { section < length plan.now.sections }
    requires few { length (all_parts plan.now.sections) < 2 ^ 32 }
    ensures { result ≡ has_content plan.now section }
{
    let (first, behind) = plan.sections.part_range(section);
    for part in first..behind {
        if !plan.named.is_table_part(PartId::from_u32(part as u32)) {
            return true;
        }
    }
    false
}

/// Whether symbols at the edges of a section are told, by marks of emitted ones.
fn tells_edges(link: &LinkInput, section: usize, emitted: &[bool]) -> bool
    requires within { section < length link.now.plan.sections }
    requires few { length (all_parts link.now.plan.sections) < 2 ^ 32 }
    ensures { result ≡ edges_by link.now emitted.now section }
{
    is_marked(emitted, section)
        && (!link.options.output.is_partial() || has_content(&link.plan, section))
}

/// For each output section whether symbols at its edges are told, by marks of emitted ones.
fn mark_told(alloc: Global, link: &LinkInput, emitted: &[bool]) -> Result<Vec<bool>, AllocError>
    requires few { length (all_parts link.now.plan.sections) < 2 ^ 32 }
    ensures { IfOk result (λ told. told.items ≡ by_section (edges_by link.now emitted.now) link.now) }
{
    let sections = link.plan.sections.len();
    let mut told = Vec::with_capacity(alloc, sections)?;
    for number in 0..sections {
        told.push(tells_edges(link, number, emitted))?;
    }
    Ok(told)
}

/// How many emitted sections an event places: one or none.
fn placed_count(emitted: &[bool], event: &OrderEvent) -> u32
    ensures { result ≡ placed_count emitted.now event.now }
{
    match event {
        OrderEvent::Section(section) if is_marked(emitted, section.as_usize()) => 1,
        _ => 0,
    }
}

/// How many emitted sections events place.
#[tactic(auto, using(std::proofs::lemmas::List::Sums::sum_by_more))]
fn count_emitted(events: &[OrderEvent], emitted: &[bool]) -> u32
    requires { length events.now ≤ EVENTS }
    ensures count { result ≡ length (filter (is_marked emitted.now) (event_sections events.now)) }
    ensures few { result ≤ EVENTS }
{
    let mut count = 0u32;
    for event in events {
        count = count.saturating_add(placed_count(emitted, event));
    }
    count
}

/// Gives an emitted section its index, if it has none yet.
#[tactic(auto, unfolding(lk_link::specs::Files::first_some))]
fn give_index(indexes: &mut [Option<u32>], section: usize, index: u32)
    requires { section < length indexes.old }
    ensures { (s : ℕ) → s < length indexes.old → slice_index_or indexes.new s None
        ≡ (if section == s then first_some (slice_index_or indexes.old s None) (Some index) else slice_index_or indexes.old s None) }
{
    if indexes[section].is_none() {
        indexes[section] = Some(index);
    }
}

/// The output indexes of all sections: emitted ones are numbered in the order of events.
#[tactic(auto, unfolding(lk_link::specs::Files::first_some))]
fn index_emitted(
    alloc: Global,
    plan: &Plan,
    emitted: &[bool],
) -> Result<Vec<Option<u32>>, AllocError>
    requires each { length emitted.now ≡ length plan.now.sections }
    requires few { length plan.now.events ≤ EVENTS }
    requires events { All (IsInRange plan.now) plan.now.events }
    ensures count { IfOk result (λ indexes. length indexes.items ≡ length plan.now.sections) }
    ensures indexes { IfOk result (λ indexes. (s : ℕ) → s < length plan.now.sections → slice_index_or indexes.items s None
        ≡ position_from (λ t. t == s) 0 (filter (is_marked emitted.now) (event_sections plan.now.events))) }
{
    let mut indexes = vec![in alloc; None; emitted.len()]?;
    let mut next = 0u32;
    for event in plan.events.as_slice() {
        if let OrderEvent::Section(section) = *event {
            if emitted[section.as_usize()] {
                give_index(&mut indexes, section.as_usize(), next);
                next += 1;
            }
        }
    }
    Ok(indexes)
}

/// Whether one of these sections has a mark.
fn any_marked(marks: &[bool], sections: &[OutputSectionId]) -> bool
    ensures { result ≡ list_any (is_marked marks.now) sections.now }
{
    sections
        .iter()
        .any(|section| is_marked(marks, section.as_usize()))
}

/// Whether a segment with these sections inside is active.
fn is_active(
    link: &LinkInput,
    segment: &PlanSegment,
    emitted: &[bool],
    inside: &[OutputSectionId],
) -> bool
    ensures { result ≡ (not (is_partial link.now.options.output)
        && (link.now.plan.custom_phdrs || segment.now.always || is_stack segment.now.kind || list_any (is_marked emitted.now) inside.now)) }
{
    if link.options.output.is_partial() {
        return false;
    }
    link.plan.custom_phdrs
        || segment.always
        || segment.kind.is_stack()
        || any_marked(emitted, inside)
}

/// Adds a segment, if it is active.
fn push_active(
    active: &mut Vec<SegmentId>,
    is_active: bool,
    segment: SegmentId,
) -> Result<(), AllocError>
    ensures { OnOk result (active.new.items ≡ active.old.items ++ (if is_active then segment ∷ [] else [])) }
{
    if is_active {
        active.push(segment)?;
    }
    Ok(())
}

/// The active segments, in rising order.
fn find_active(
    alloc: Global,
    link: &LinkInput,
    emitted: &[bool],
    insides: &[List<OutputSectionId>],
) -> Result<Vec<SegmentId>, AllocError>
    requires few { length link.now.plan.segments ≤ SEGMENTS }
    requires insides { insides.now ≡ segment_insides link.now.plan }
    ensures { IfOk result (λ active. active.items
        ≡ filter (active_by link.now emitted.now) (map (λ q. q.0) (enumerate_from 0 link.now.plan.segments))) }
{
    let segments = link.plan.segments.as_slice();
    let mut active = Vec::with_capacity(alloc, segments.len())?;
    for number in 0..segments.len() {
        let inside = insides[number].as_slice();
        let is_active = is_active(link, &segments[number], emitted, inside);
        push_active(&mut active, is_active, SegmentId::from_u32(number as u32))?;
    }
    Ok(active)
}
