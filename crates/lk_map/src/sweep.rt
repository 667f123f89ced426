//! Which sections no segment holds, by one walk over both in the order of the file. Sections without a byte in common there end in the order in
//! which they start. So a segment that ends before one of them serves no later one, and of those that have begun the one that ends last in
//! memory decides.

ghost use Rattle.std.specs.Prelude.{◌≡◌, ℕ, ◌+◌, ◌<◌, ◌≤◌, ◌∷◌, [], ◌↔◌, map, length, slice_index_or, IfOk, IfSome, IsTrue, MatchBool, MatchOption, None, Some, if◌then◌else◌};
ghost use Rattle.std.specs.BinaryHeap.{heap_items, heap_len, IsHeap};
ghost use Rattle.std.specs.List.{filter, Contains};
ghost use Rattle.std.specs.List.Sorted.{IsPermutation};
ghost use Rattle.lk_map.specs.Checking.{first_outside, first_overflow, needs_segment};
ghost use Rattle.lk_map.specs.MapText.{LinesRise};
ghost use Rattle.lk_map.specs.Spans.{file_spans, AreApart};
ghost use Rattle.lk_map.specs.declared.sweep.Open.{Open};
ghost use Rattle.lk_map.specs.Sweep.{distance_of, end_of, need_of, needs_of, offer_of, open_cmp, open_of, lesser_line, HasBegun, HasHolder, HasLong, IsBest, IsLeast, IsSpent, LetsGo, NeedsRise, OffersRise, OpensUpTo};

use crate::check::is_in_need;
use crate::held::are_held_in_order;
use crate::map_text::{SectionLine, SegmentLine};
use std::alloc::{AllocError, Global};
use std::collections::BinaryHeap;

/// A section that has to stand in a segment, in the order in which they are gone through.
#[derive(Clone, Copy, PartialEq, Eq, PartialOrd, Ord)]
pub struct Need {
    /// How far memory lies behind the file, and 2^64 more.
    pub distance: u128,
    /// Where it starts in the file.
    pub start: u64,
    /// Where it ends there.
    pub file_end: u64,
    /// Where it ends in memory.
    pub mem_end: u64,
    /// Its line.
    pub line: usize,
}

/// A segment, in the order in which they are gone through.
#[derive(Clone, Copy, PartialEq, Eq, PartialOrd, Ord)]
pub struct Offer {
    /// How far memory lies behind the file, and 2^64 more.
    pub distance: u128,
    /// Where it starts in the file.
    pub start: u64,
    /// Where it ends there.
    pub file_end: u64,
    /// Where it ends in memory.
    pub mem_end: u64,
}

/// A segment that was come to. The best is the greatest: of the last distance the one that ends last in memory.
#[derive(Clone, Copy, PartialEq, Eq, PartialOrd, Ord)]
pub struct Open {
    pub distance: u128,
    pub mem_end: u64,
    pub file_end: u64,
}

/// How far memory lies behind the file, and 2^64 more.
fn distance_between(memory: u64, file: u64) -> u128
    ensures { result ≡ distance_of memory file }
{
    u128::from(memory) + 18_446_744_073_709_551_616 - u128::from(file)
}

/// A section as it is gone through.
fn as_need(section: &SectionLine) -> Need
    ensures { result ≡ need_of section.now }
{
    Need {
        distance: distance_between(section.mem_offset, section.file_offset),
        start: section.file_offset,
        file_end: section.file_offset.saturating_add(section.file_size),
        mem_end: section.mem_offset.saturating_add(section.mem_size),
        line: section.line,
    }
}

/// A segment as it is gone through.
fn as_offer(segment: &SegmentLine) -> Offer
    ensures { result ≡ offer_of segment.now }
{
    Offer {
        distance: distance_between(segment.mem_offset, segment.file_offset),
        start: segment.file_offset,
        file_end: segment.file_offset.saturating_add(segment.file_size),
        mem_end: segment.mem_offset.saturating_add(segment.mem_size),
    }
}

/// All sections that have to stand in a segment.
fn all_needs(alloc: Global, sections: &[SectionLine]) -> Result<Vec<Need>, AllocError>
    ensures { IfOk result (λ needs. needs.items ≡ needs_of sections.now) }
{
    sections
        .iter()
        .filter(|section| is_in_need(section))
        .map(|section| as_need(section))
        .collect(alloc)
}

/// All segments.
fn all_offers(alloc: Global, segments: &[SegmentLine]) -> Result<Vec<Offer>, AllocError>
    ensures { IfOk result (λ offers. offers.items ≡ map offer_of segments.now) }
{
    segments
        .iter()
        .map(|segment| as_offer(segment))
        .collect(alloc)
}

/// Whether a segment has begun where a section starts, by distance first and then in the file.
fn has_begun(offer: &Offer, need: &Need) -> bool
    ensures { IsTrue result ↔ HasBegun offer.now need.now }
{
    offer.distance < need.distance || (offer.distance == need.distance && offer.start <= need.start)
}

/// Whether a segment ends before a section does, by distance first and then in the file.
fn is_spent(segment: &Open, need: &Need) -> bool
    ensures { IsTrue result ↔ IsSpent segment.now need.now }
{
    segment.distance < need.distance
        || (segment.distance == need.distance && segment.file_end < need.file_end)
}

/// Opens a segment.
fn open_one(heap: &mut BinaryHeap<Open>, offer: &Offer) -> Result<(), AllocError>
    ensures items { IfOk result (λ _. IsPermutation (open_of offer.now ∷ heap_items heap.old) (heap_items heap.new)) }
    ensures order { IfOk result (λ _. IsHeap open_cmp (heap_items heap.old) → IsHeap open_cmp (heap_items heap.new)) }
{
    heap.push(Open {
        distance: offer.distance,
        mem_end: offer.mem_end,
        file_end: offer.file_end,
    })?;
    Ok(())
}

/// Opens all segments that have begun where a section starts, from the next one on. Tells which is the next then.
fn open_up_to(
    heap: &mut BinaryHeap<Open>,
    offers: &[Offer],
    next: usize,
    need: &Need,
) -> Result<usize, AllocError>
    requires within { next ≤ length offers.now }
    requires rises { OffersRise offers.now }
    ensures { IfOk result (λ now. OpensUpTo offers.now next now need.now (heap_items heap.old) (heap_items heap.new)) }
{
    let mut now = next;
    while now < offers.len() {
        let offer = offers[now];
        if !has_begun(&offer, need) {
            return Ok(now);
        }
        open_one(heap, &offer)?;
        now += 1;
    }
    Ok(now)
}

/// The best of the open segments.
fn best(heap: &BinaryHeap<Open>) -> Option<Open>
    requires { IsHeap open_cmp (heap_items heap.now) }
    ensures best { MatchOption result (heap_items heap.now ≡ []) (IsBest (heap_items heap.now)) }
    ensures top { IfSome result (λ x. x ≡ slice_index_or (heap_items heap.now) 0 x) }
{
    match heap.peek() {
        Some(top) => Some(*top),
        None => None,
    }
}

/// Lets the best of the open segments go.
fn let_best_go(heap: &mut BinaryHeap<Open>)
    requires { 0 < length (heap_items heap.old) }
    ensures items { (x : Open) → x ≡ slice_index_or (heap_items heap.old) 0 x → IsPermutation (heap_items heap.old) (x ∷ heap_items heap.new) }
    ensures order { IsHeap open_cmp (heap_items heap.old) → IsHeap open_cmp (heap_items heap.new) }
    ensures fewer { length (heap_items heap.new) < length (heap_items heap.old) }
{
    let _best = heap.pop();
}

/// Lets go of open segments that are spent, and says whether one is left that ends no earlier in memory than a section.
/// No open segment has a later distance.
fn is_held_by_best(heap: &mut BinaryHeap<Open>, need: &Need) -> bool
    requires order { IsHeap open_cmp (heap_items heap.old) }
    requires near { (x : Open) → Contains (heap_items heap.old) x → x.distance ≤ need.now.distance }
    ensures left { LetsGo need.now (heap_items heap.old) (heap_items heap.new) }
    ensures found { MatchBool result (HasHolder (heap_items heap.new) need.now) (¬ HasLong (heap_items heap.new) need.now) }
{
    loop {
        let Some(x) = best(heap) else {
            return false;
        };
        if !is_spent(&x, need) {
            return need.mem_end <= x.mem_end;
        }
        let_best_go(heap);
    }
}

/// The least line so far, behind one more section: its line counts unless the section is held.
fn lesser(least: Option<usize>, line: usize, is_held: bool) -> Option<usize>
    ensures { result ≡ (if is_held then least else Some (lesser_line least line)) }
{
    if is_held {
        return least;
    }
    match least {
        None => Some(line),
        Some(other) => Some(other.min(line)),
    }
}

/// The least line of these sections that no segment holds. Both stand in the order in which they are gone through.
fn least_unheld(
    alloc: Global,
    needs: &[Need],
    offers: &[Offer],
) -> Result<Option<usize>, AllocError>
    requires needs { NeedsRise needs.now }
    requires offers { OffersRise offers.now }
    ensures { IfOk result (IsLeast offers.now needs.now) }
{
    let mut heap = BinaryHeap::new(alloc);
    let mut next = 0;
    let mut least = None;
    for need in needs {
        next = open_up_to(&mut heap, offers, next, need)?;
        let is_held = is_held_by_best(&mut heap, need);
        least = lesser(least, need.line, is_held);
    }
    Ok(least)
}

/// The line of the first section that has to stand in a segment and that none holds. No range ends past 2^64 - 1, and sections have no byte in
/// common in the file.
pub fn unheld_line(
    alloc: Global,
    sections: &[SectionLine],
    segments: &[SegmentLine],
) -> Result<Option<usize>, AllocError>
    requires rises { LinesRise sections.now }
    requires ends { first_overflow sections.now segments.now ≡ None }
    requires apart { AreApart (file_spans sections.now) }
    ensures { IfOk result (λ line. line ≡ first_outside sections.now segments.now) }
{
    if are_held_in_order(sections, segments) {
        return Ok(None);
    }
    let mut needs = all_needs(alloc, sections)?;
    let mut offers = all_offers(alloc, segments)?;
    needs.sort_unstable();
    offers.sort_unstable();
    least_unheld(alloc, needs.as_slice(), offers.as_slice())
}
