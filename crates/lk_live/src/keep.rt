//! What is live, by the marks of units and the words of flags that a walk left.

ghost use Rattle.std.specs.Prelude.{◌≡◌, ◌-◌, ◌≤◌, ◌<◌, ◌&&◌, ◌||◌, ℕ, IfOk, drop, length, map};
ghost use Rattle.std.specs.List.{list_any, range_with_len};
ghost use Rattle.lk_link.specs.InputSlots.{can_be_kept};
ghost use Rattle.lk_link.specs.Marks.{is_marked};
ghost use Rattle.lk_link.specs.WellFormed.{IsWellFormed};
ghost use Rattle.lk_live.specs.KeptParts.{AreKeptParts, for_sections, keeps_part, kept_marks, live_by, live_marks, part_keeps};
ghost use Rattle.lk_reach.specs.Units.{flags_from};
ghost use Rattle.lk_reach.specs.Marks.{AreFew};

use crate::live::Live;
use crate::named::keep_named;
use lk_link::marks::is_marked;
use lk_link::{InputSection, InputSlot, LinkInput, List, ValueFlags};
use lk_reach::Walk;
use lk_reach::walk::unmarked;
use std::alloc::{AllocError, Global};

/// What is live after a walk.
pub(crate) fn live_after(alloc: Global, link: &LinkInput, walk: &Walk) -> Result<Live, AllocError>
    requires well_formed { IsWellFormed link.now }
    requires few { AreFew walk.now.words.items }
    ensures { IfOk result (λ live. live ≡ live_by link.now walk.now.marks.items walk.now.words.items) }
{
    let pass = live_pass(alloc, link, walk.marks.as_slice())?;
    let flags = symbol_flags(alloc, walk.words.as_slice())?;
    let kept = kept_marks(alloc, link, &pass, walk.marks.as_slice())?;
    Ok(Live {
        marks: List::from_vec(pass.live),
        flags: List::from_vec(flags),
        kept: List::from_vec(kept),
    })
}

/// What one look at each input section tells.
#[derive(Drop)]
struct LivePass {
    /// For each input section whether it is live.
    live: Vec<bool>,
    /// For each part whether a live section without bytes, that isn't debug data, goes to it.
    parts: Vec<bool>,
}

/// Which input sections are live, those whose units are marked and whose slots let them be kept, and which parts they keep. Looks
/// at each input section once.
fn live_pass(alloc: Global, link: &LinkInput, marks: &[bool]) -> Result<LivePass, AllocError>
    requires { IsWellFormed link.now }
    ensures live { IfOk result (λ pass. pass.live.items ≡ live_marks link.now marks.now) }
    ensures parts { IfOk result (λ pass. AreKeptParts link.now pass.live.items pass.parts.items) }
{
    let symbols = link.groups.symbol_count() as usize;
    let mut live = Vec::with_capacity(alloc, link.groups.input_count() as usize)?;
    let mut parts = unmarked(alloc, link.plan.sections.parts().len())?;
    for input in link.groups.inputs() {
        let unit = symbols + live.len();
        let alive = is_live(marks, unit, input.section.slot);
        keep_part(&mut parts, alive, input.section);
        live.push(alive)?;
    }
    Ok(LivePass { live, parts })
}

/// Whether a unit is marked, and its slot lets it be kept.
fn is_live(marks: &[bool], unit: usize, slot: InputSlot) -> bool
    ensures { result ≡ (is_marked marks.now unit && can_be_kept slot) }
{
    is_marked(marks, unit) && slot.can_be_kept()
}

/// The flags of each symbol, from the words behind the spare one.
fn symbol_flags(alloc: Global, words: &[u64]) -> Result<Vec<ValueFlags>, AllocError>
    requires { AreFew words.now }
    ensures { IfOk result (λ flags. flags.items ≡ map flags_from (drop 1 words.now)) }
{
    match words.split_first() {
        Some((_, words)) => flags_of(alloc, words),
        None => Ok(Vec::new(alloc)),
    }
}

/// Words of flags as flags.
fn flags_of(alloc: Global, words: &[u64]) -> Result<Vec<ValueFlags>, AllocError>
    requires { AreFew words.now }
    ensures { IfOk result (λ flags. flags.items ≡ map flags_from words.now) }
{
    let mut flags = Vec::with_capacity(alloc, words.len())?;
    for word in words {
        flags.push(ValueFlags(*word as u32))?;
    }
    Ok(flags)
}

/// For each output section whether a live section without bytes keeps it, or a redirect that is reached. `marks` tells of each
/// unit whether it is.
fn kept_marks(
    alloc: Global,
    link: &LinkInput,
    pass: &LivePass,
    marks: &[bool],
) -> Result<Vec<bool>, AllocError>
    requires well_formed { IsWellFormed link.now }
    requires parts { AreKeptParts link.now pass.now.live.items pass.now.parts.items }
    ensures { IfOk result (λ kept. kept.items ≡ kept_marks link.now pass.now.live.items marks.now) }
{
    let mut kept = kept_by_parts(alloc, link, pass.parts.as_slice())?;
    keep_named(&mut kept, link, marks);
    Ok(kept)
}

/// For each output section whether one of its parts has a mark.
fn kept_by_parts(alloc: Global, link: &LinkInput, parts: &[bool]) -> Result<Vec<bool>, AllocError>
    ensures { IfOk result (λ kept. kept.items ≡ for_sections (part_keeps link.now parts.now) link.now) }
{
    let sections = link.plan.sections.len();
    let mut kept = Vec::with_capacity(alloc, sections)?;
    for section in 0..sections {
        let (first, behind) = link.plan.sections.part_range(section);
        kept.push(any_marked(parts, first, behind))?;
    }
    Ok(kept)
}

/// Whether one of the numbers from the first on has a mark, the last left out.
fn any_marked(marks: &[bool], first: usize, behind: usize) -> bool
    requires { first ≤ behind }
    ensures { result ≡ list_any (is_marked marks.now) (range_with_len first (behind - first)) }
{
    (first..behind).any(|number| is_marked(marks, number))
}

/// Keeps the part of a section, if the section is live, has no bytes and isn't debug data.
fn keep_part(parts: &mut Vec<bool>, live: bool, section: &InputSection)
    ensures count { length parts.new.items ≡ length parts.old.items }
    ensures marks { (p : ℕ) → p < length parts.old.items
        → is_marked parts.new.items p ≡ (is_marked parts.old.items p || (live && keeps_part p section.now)) }
{
    let part = section.part.as_usize();
    if live && section.size == 0 && !section.slot.is_debug() && part < parts.len() {
        parts[part] = true;
    }
}
