//! What a plan says of its sections and segments, and what slots say.

ghost use Rattle.std.specs.Prelude.{◌≤◌, length};

use crate::rows::{Asked, expect_rows, expect_text};
use crate::shown::Shown;
use lk_link::{InputSlot, OutputSectionId, Plan};
use lk_test_rows::add;
use std::alloc::{AllocError, Global};
use std::test::Fail;

/// Sections: with memory and bytes of the file; with memory alone; secondary to each of them, and thread-local; secondary to
/// the first and zero-fill thread-local; without memory; and the one of the singletons, with a secondary one. What is told
/// of each: the attributes, and whether it is allocated, file-backed, thread-local, zero-fill thread-local and with memory.
const SECTIONS: &str = r#"
{"plan":{"page":1,"singletons":6,"sections":[{"attrs":1},{"attrs":17},{"attrs":8,"primary":0},{"attrs":8,"primary":1},{"attrs":24,"primary":0},{"attrs":2},{"attrs":31},{"attrs":1,"primary":6}]}} => section (1, true, true, false, false, true) section (17, true, false, false, false, true) section (8, true, true, true, false, true) section (8, true, false, true, false, true) section (24, true, true, true, true, false) section (2, false, true, false, false, false) section (0, false, true, false, false, false) section (1, false, true, false, false, false)
"#;

/// Segments that overlap, one with nothing inside, and a section in none: the sections inside each.
const INSIDES: &str = r#"
{"plan":{"page":1,"segments":[{"kind":"load"},{"kind":"other"},{"kind":"stack"}],"events":[["sec",3],["seg",0],["sec",2],["seg",1],["sec",0],["endseg",0],["sec",1],["endseg",1],["seg",2],["endseg",2]]}} => inside [OutputSectionId { number: 2 }, OutputSectionId { number: 0 }] inside [OutputSectionId { number: 0 }, OutputSectionId { number: 1 }] inside []
"#;

/// Adds the attributes of a section, and what holds of it.
fn add_section(line: &mut String, plan: &Plan, id: OutputSectionId) -> Result<(), AllocError> {
    let (allocated, backed) = (plan.is_allocated(id), plan.is_file_backed(id));
    let (local, zero_fill) = (plan.is_thread_local(id), plan.is_zero_fill_thread_local(id));
    let (attributes, memory) = (plan.own_attributes(id), plan.has_memory(id));
    add(
        line,
        "section",
        &(attributes, allocated, backed, local, zero_fill, memory),
    )
}

/// Adds the first eight sections.
pub fn add_sections(line: &mut String, plan: &Plan) -> Result<(), AllocError> {
    for number in 0..8 {
        add_section(line, plan, OutputSectionId::from_u32(number))?;
    }
    Ok(())
}

/// Adds the sections inside each of segments that aren't too many.
pub fn add_insides(alloc: Global, line: &mut String, plan: &Plan) -> Result<(), AllocError> {
    if plan.segments.len() > 64 {
        return Ok(());
    }
    for inside in plan.sections_of_segments(alloc)? {
        add(line, "inside", &inside.as_slice())?;
    }
    Ok(())
}

/// Expressions that are a number, as the default is, and one that isn't.
const BASES: &str = r#"
@ {"plan":{"page":1...}}
 => base Some(0)
,"base":["num",7] => base Some(7)
,"base":["add",["num",7],["num",0]] => base None
"#;

#[test]
fn numbers_are_told_from_expressions(rt: HostRuntime) -> Result<(), Fail> {
    expect_rows(&rt, rt.alloc(), Asked::Of(Shown::Base), BASES)
}

#[test]
fn memory_and_backing_go_by_the_primary_section(rt: HostRuntime) -> Result<(), Fail> {
    expect_rows(&rt, rt.alloc(), Asked::Of(Shown::Sections), SECTIONS)
}

#[test]
fn segments_hold_what_is_placed_while_they_are_open(rt: HostRuntime) -> Result<(), Fail> {
    expect_rows(&rt, rt.alloc(), Asked::Of(Shown::Insides), INSIDES)
}

/// Adds what a slot says: discarded, merge, regular, must, debug, kept.
fn add_slot(line: &mut String, slot: InputSlot) -> Result<(), AllocError> {
    let (discarded, merge, regular) = (slot.is_discarded(), slot.is_merge(), slot.is_regular());
    let (must, debug, kept) = (slot.is_must(), slot.is_debug(), slot.can_be_kept());
    add(
        line,
        "slot",
        &(slot, discarded, merge, regular, must, debug, kept),
    )
}

#[test]
fn slots_are_told_apart(rt: HostRuntime) -> Result<(), Fail> {
    let mut line = String::new(rt.alloc());
    for slot in [
        InputSlot::Discard,
        InputSlot::Unloaded,
        InputSlot::MustLoad,
        InputSlot::DebugInfo,
        InputSlot::MustLoadDebugInfo,
        InputSlot::Merge,
    ] {
        add_slot(&mut line, slot)?;
    }
    expect_text(
        &rt,
        line.as_str(),
        "slot (Discard, true, false, false, false, false, false) \
        slot (Unloaded, false, false, true, false, false, true) \
        slot (MustLoad, false, false, true, true, false, true) \
        slot (DebugInfo, false, false, false, false, true, true) \
        slot (MustLoadDebugInfo, false, false, false, false, true, true) \
        slot (Merge, false, true, false, false, false, false)",
    );
    Ok(())
}
