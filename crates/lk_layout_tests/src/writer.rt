//! What a writer of output files asks a layout; docs/WRITERS.md has the calls in their order.
//!
//! A row is a description. The answer is the length of the file; of each output section its index, and where it stands in memory and in the
//! file, as `START+BYTES in START+BYTES`; the same two of each active segment; of each live section its address, its bytes and where these
//! stand in the file, if they do; of each symbol what a relocation that names it computes with: the value of what stands for it, the words of
//! its entry of the GOT for the value and for the thread-local offset, and its entry of the PLT; where thread-local data ends; and the entry.

use crate::rows::{Asked, expect_rows};
use lk_answers::files::ObjectLayout;
use lk_answers::{Answers, FileLayout, GroupLayout};
use lk_compute::compute_alone;
use lk_input::read_link;
use lk_layout::{Layout, LayoutError, Resolution, Small64Arch};
use lk_link::{LinkInput, SectionSlot, Small64, SymbolId};
use lk_place::OutputRecordLayout;
use lk_test_rows::add;
use std::alloc::{AllocError, Global};
use std::test::Fail;

/// A symbol with this flag has a word of the GOT for its value.
const VALUE_WORD: u32 = 128;
/// A symbol with this flag has one for its thread-local offset, behind that for its value.
const OFFSET_WORD: u32 = 512;
/// So many groups are told, so many files of each, sections of each of these, and symbols.
const TOLD: u32 = 10;

/// How long the file is: no output section ends behind that.
fn file_length(sections: &[OutputRecordLayout]) -> u64 {
    let mut length = 0u64;
    for one in sections {
        length = length.max(one.file_offset.saturating_add(one.file_size));
    }
    length
}

/// Adds where something stands in memory and in the file.
fn add_record(line: &mut String, one: &OutputRecordLayout) -> Result<(), AllocError> {
    let (address, bytes) = (one.mem_offset, one.mem_size);
    let (start, size) = (one.file_offset, one.file_size);
    write!(line, " {address}+{bytes} in {start}+{size}")
}

/// Adds where the output sections stand, each with its index among the emitted ones.
fn add_output_sections(line: &mut String, layout: &Layout<'_>) -> Result<(), AllocError> {
    let indexes = layout.output_section_indexes();
    for (number, one) in layout.section_layouts().iter().enumerate() {
        add(
            line,
            "section",
            &indexes.get(number).copied().unwrap_or(None),
        )?;
        add_record(line, one)?;
    }
    Ok(())
}

/// Adds where the active segments stand.
fn add_segments(line: &mut String, layout: &Layout<'_>) -> Result<(), AllocError> {
    for one in layout.segment_layouts() {
        line.push_str(" segment")?;
        add_record(line, &one.sizes)?;
    }
    Ok(())
}

/// Where bytes of a part at this address stand in the file: as far behind its start as in memory. None where the part has none there.
fn place_in_file(part: &OutputRecordLayout, address: u64) -> Option<u64> {
    if part.file_size == 0 {
        return None;
    }
    let behind = address.checked_sub(part.mem_offset)?;
    part.file_offset.checked_add(behind)
}

/// The bytes of a section that is live.
fn live_bytes(slot: SectionSlot) -> Option<u64> {
    match slot {
        SectionSlot::Loaded(section) => Some(section.size),
        SectionSlot::LoadedDebugInfo(section) => Some(section.size),
        SectionSlot::Sorted(section) => Some(section.size),
        SectionSlot::PartialLinkSingleton(section) => Some(section.size),
        _ => None,
    }
}

/// Of a section of an object, if it is live: its address, its bytes, and where these stand in the file.
fn live_place(
    layout: &Layout<'_>,
    object: &ObjectLayout<'_>,
    index: u32,
) -> Option<(u64, u64, Option<u64>)> {
    let bytes = live_bytes(object.sections.get(index)?)?;
    let address = object.section_resolutions.get(index as usize)?.address()?;
    let file = layout.link().groups.file(object.file_id)?;
    let section = file.sections.get(index as usize)?;
    let part = layout.section_part_layouts().get(section.part.as_usize())?;
    Some((address, bytes, place_in_file(part, address)))
}

/// Adds where the live sections of an object stand.
fn add_object(
    line: &mut String,
    layout: &Layout<'_>,
    object: &ObjectLayout<'_>,
) -> Result<(), AllocError> {
    for index in 0..TOLD {
        if let Some(place) = live_place(layout, object, index) {
            add(line, "live", &place)?;
        }
    }
    Ok(())
}

/// Adds where the live sections of the files of a group stand.
fn add_group(
    line: &mut String,
    layout: &Layout<'_>,
    group: &GroupLayout<'_, '_>,
) -> Result<(), AllocError> {
    for number in 0..TOLD {
        if let Some(FileLayout::Object(object)) = group.files.get(number) {
            add_object(line, layout, &object)?;
        }
    }
    Ok(())
}

/// Adds where the live sections of all files stand.
fn add_live(line: &mut String, layout: &Layout<'_>) -> Result<(), AllocError> {
    let groups = layout.group_layouts();
    for number in 0..TOLD {
        if let Some(group) = groups.get(number) {
            add_group(line, layout, &group)?;
        }
    }
    Ok(())
}

/// Where the word for a symbol's value stands in the GOT.
fn value_word(of: &Resolution) -> Option<u64> {
    if of.flags.0 & VALUE_WORD == 0 {
        return None;
    }
    of.got
}

/// Where the word for a symbol's thread-local offset stands in the GOT.
fn offset_word(of: &Resolution) -> Option<u64> {
    if of.flags.0 & OFFSET_WORD == 0 {
        return None;
    }
    match value_word(of) {
        Some(word) => word.checked_add(8),
        None => of.got,
    }
}

/// Adds what relocations compute with.
fn add_symbols(line: &mut String, layout: &Layout<'_>) -> Result<(), AllocError> {
    for number in 0..TOLD {
        if let Some(of) = layout.merged_symbol_resolution(SymbolId::from_u32(number)) {
            let words = (value_word(&of), offset_word(&of));
            write!(line, " symbol {number}")?;
            add(line, "is", &(of.raw_value, words, of.plt))?;
        }
    }
    Ok(())
}

/// Adds all that is asked.
fn add_layout(line: &mut String, layout: &Layout<'_>) -> Result<(), AllocError> {
    add(line, "length", &file_length(layout.section_layouts()))?;
    add_output_sections(line, layout)?;
    add_segments(line, layout)?;
    add_live(line, layout)?;
    add_symbols(line, layout)?;
    add(line, "thread", &layout.tls_end_address())?;
    add(line, "entry", &layout.resolved_entry_symbol_address())
}

/// Adds what is answered of what was computed, or why there is nothing.
fn add_computed(
    line: &mut String,
    computed: &Result<Layout<'_>, LayoutError>,
) -> Result<(), AllocError> {
    match computed {
        Ok(layout) => add_layout(line, layout),
        Err(LayoutError::NoMemory) => Err(AllocError),
        Err(error) => write!(line, "refused: {error:?}"),
    }
}

/// Adds what is answered of a link.
fn add_link(alloc: Global, line: &mut String, link: &LinkInput) -> Result<(), AllocError> {
    let computed = compute_alone(alloc, link, &Small64, &Small64Arch);
    let added = add_computed(line, &computed);
    drop(computed);
    added
}

/// Adds what a writer is answered where the text stands for a link.
pub fn add_written(alloc: Global, line: &mut String, text: &str) -> Result<(), AllocError> {
    match read_link(alloc, text.as_bytes()) {
        Ok(link) => add_link(alloc, line, &link),
        Err(error) => write!(line, "no link: {error}"),
    }
}

/// Descriptions.
const ASKED: &str = r#"
# Code of two alignments, and a section that is left out; thread-local data whose symbol has two words of the GOT; data of two alignments,
# and zeros. The second load segment begins on the next page, as far into it as the file is.
{"options":{"entry":8},"plan":{"page":4096,"base":["num",65536],"sections":[{"attrs":5,"parts":[[16,false],[4,false]]},{"attrs":11,"parts":[[8,false]]},{"attrs":3,"parts":[[8,false]]},{"attrs":3,"parts":[[8,false],[1,false]]},{"attrs":19,"parts":[[16,false]]}],"segments":[{"kind":"load"},{"kind":"load"},{"kind":"tls"}],"events":[["seg",0],["sec",0],["endseg",0],["seg",1],["seg",2],["sec",1],["endseg",2],["sec",2],["sec",3],["sec",4],["endseg",1]],"got":3},"groups":[[{"kind":"prelude"}],[{"kind":"object","symbols":[{"at":["undef"],"def":4},{"at":["undef"],"def":5},{"at":["undef"],"def":6},{"at":["undef"],"def":8}],"sections":[{"slot":"must","part":0,"size":20,"attrs":4,"relocs":[[0,"GotRelative",0,0,false],[4,"GotTpOff",1,0,false],[8,"Got",1,0,false],[12,"Relative",2,0,false],[16,"Relative",3,0,false]]},{"slot":"unloaded","part":1,"size":8,"attrs":4}]}],[{"kind":"object","symbols":[{"at":["sec",2,8]},{"at":["sec",1,0]},{"at":["sec",4,16]},{"at":["sec",3,1]},{"at":["sec",0,2]}],"sections":[{"slot":"unloaded","part":1,"size":6,"attrs":4},{"slot":"unloaded","part":2,"size":4},{"slot":"unloaded","part":4,"size":12,"relocs":[[0,"Absolute",3,0,false]]},{"slot":"unloaded","part":5,"size":3},{"slot":"unloaded","part":6,"size":32}]}]]} => length 91 section Some(0) 65536+40 in 0+40 section Some(1) 69672+8 in 40+8 section Some(2) 69680+24 in 48+24 section Some(3) 69704+19 in 72+19 section Some(4) 69728+32 in 91+0 segment 65536+40 in 0+40 segment 69672+88 in 40+51 segment 69672+8 in 40+8 live (65536, 20, Some(0)) live (65568, 6, Some(32)) live (69672, 4, Some(40)) live (69704, 12, Some(72)) live (69720, 3, Some(88)) live (69728, 32, None) symbol 0 is (69712, (Some(69680), None), None) symbol 1 is (69672, (Some(69688), Some(69696)), None) symbol 2 is (69744, (None, None), None) symbol 3 is (65570, (None, None), None) symbol 4 is (69712, (Some(69680), None), None) symbol 5 is (69672, (Some(69688), Some(69696)), None) symbol 6 is (69744, (None, None), None) symbol 7 is (69721, (None, None), None) symbol 8 is (65570, (None, None), None) thread 69680 entry Ok(Some(65570))
# An indirect function with an entry of the PLT, and an output section without bytes that isn't emitted.
{"plan":{"page":16,"base":["num",4096],"sections":[{"attrs":5,"parts":[[16,false],[1,false]]},{"attrs":3,"parts":[[8,false]]},{"attrs":3,"parts":[[8,false]]}],"segments":[{"kind":"load"}],"events":[["seg",0],["sec",0],["sec",1],["sec",2],["endseg",0]],"plt":0,"got":2},"groups":[[{"kind":"prelude"}],[{"kind":"object","symbols":[{"at":["sec",0,1],"flags":4}],"sections":[{"slot":"must","part":1,"size":5,"attrs":4,"relocs":[[0,"PltRelative",0,0,false]]},{"slot":"discard","size":9}]}]]} => length 32 section Some(0) 4096+21 in 0+21 section Some(1) 4120+8 in 24+8 section None 4128+0 in 32+0 segment 4096+32 in 0+32 live (4112, 5, Some(16)) symbol 0 is (4113, (Some(4120), None), Some(4096)) thread 0 entry Ok(None)
# What is refused.
{"plan":{"page":1,"sections":[{"parts":[[1,false]]}],"events":[["sec",0]]},"groups":[[{"kind":"prelude"}],[{"kind":"object","symbols":[{"at":["undef"]}],"sections":[{"slot":"must","size":4,"relocs":[[0,"Relative",0,0,false]]}]}]]} => refused: undefined: symbol 0 from 1 0 0 relocation 0
"#;

#[test]
fn writers_are_answered(rt: HostRuntime) -> Result<(), Fail> {
    expect_rows(&rt, rt.alloc(), Asked::Written, ASKED)
}
