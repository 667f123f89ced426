//! What layouts lend, and what they answer of the entry and of the linker's own file.
//!
//! A row is a description. The answer is how many thunks there are, where the blocks begin, and of each block where its first and its
//! second thunk would begin; the sorted sections, each with its part and the bytes that it takes there by what alignment; for each group
//! how many singletons it has and the bytes of their names; where the merged data of each output section begins, 0 where nothing is
//! merged; which input sections are live, and where they begin; what is deleted, as `FILE/INDEX START+LENGTH` with the file's number over
//! all groups; where the sections of the second group's first file stand, and what symbols at their starts would stand for; and what is
//! told of the linker's own file and of the entry.

use crate::rows::{Asked, expect_rows};
use lk_answers::files::ObjectLayout;
use lk_answers::{Answers, FileLayout, SectionResolution};
use lk_compute::compute_alone;
use lk_layout::{Layout, LayoutError, Small64Arch};
use lk_link::{LinkInput, Small64};
use lk_test_rows::add;
use std::alloc::{AllocError, Global};
use std::test::Fail;

/// Adds how many thunks there are, and where they begin.
fn add_thunks(line: &mut String, layout: &Layout<'_>) -> Result<(), AllocError> {
    add(line, "thunks", &layout.thunk_count())?;
    let begins = layout.thunk_block_addresses();
    add(line, "blocks", &begins)?;
    for block in 0..begins.len() {
        let two = (
            layout.thunk_address(block, 0),
            layout.thunk_address(block, 1),
        );
        add(line, "block", &two)?;
    }
    Ok(())
}

/// Adds the sorted sections.
fn add_sorted(line: &mut String, layout: &Layout<'_>) -> Result<(), AllocError> {
    line.push_str(" sorted")?;
    for one in layout.script_sorted_sections() {
        let (file, index, part) = (one.file_id, one.section_index, one.part_id.as_u32());
        let (size, alignment) = (one.size, one.alignment);
        write!(
            line,
            " {file} {index} in {part} takes {size} by {alignment}"
        )?;
    }
    Ok(())
}

/// Adds the singletons of each group.
fn add_singletons(line: &mut String, layout: &Layout<'_>) -> Result<(), AllocError> {
    match layout.partial_link() {
        Some(plan) => add(line, "singletons", &plan.singletons.group_sizes()),
        None => line.push_str(" no singletons"),
    }
}

/// Adds where merged data begins.
fn add_merged(line: &mut String, layout: &Layout<'_>) -> Result<(), AllocError> {
    let starts = layout.merged_string_start_addresses();
    line.push_str(" merged")?;
    for section in 0..layout.section_layouts().len() {
        let start = starts.image_start(section);
        write!(line, " {start}")?;
    }
    Ok(())
}

/// Adds what is deleted.
fn add_deleted(alloc: Global, line: &mut String, layout: &Layout<'_>) -> Result<(), AllocError> {
    line.push_str(" deleted")?;
    for (file, deltas) in layout.section_deletions().iter().enumerate() {
        for index in 0..4 {
            if let Some(deltas) = deltas.get(index) {
                for (start, length) in &deltas.ranges(alloc)? {
                    write!(line, " {file}/{index} {start}+{length}")?;
                }
            }
        }
    }
    Ok(())
}

/// What a symbol at a section's start would stand for, with its flags and entries.
fn whole(section: SectionResolution) -> Option<(u64, u32, Option<u64>, Option<u64>)> {
    let whole = section.full_resolution()?;
    Some((whole.raw_value, whole.flags.0, whole.got, whole.plt))
}

/// Adds where the sections of an object stand.
fn add_object(line: &mut String, object: &ObjectLayout<'_>) -> Result<(), AllocError> {
    let all = &object.section_resolutions;
    for index in 0..all.len() {
        if let Some(one) = all.get(index) {
            add(line, "section", &(one.address(), whole(one)))?;
        }
    }
    Ok(())
}

/// Adds where the sections of the second group's first file stand.
fn add_second(line: &mut String, layout: &Layout<'_>) -> Result<(), AllocError> {
    if let Some(group) = layout.group_layouts().get(1) {
        if let Some(FileLayout::Object(object)) = group.files.get(0) {
            add_object(line, &object)?;
        }
    }
    Ok(())
}

/// Adds what is told of the linker's own file, and the entry.
fn add_prelude(line: &mut String, layout: &Layout<'_>) -> Result<(), AllocError> {
    let prelude = layout.prelude();
    let headers = prelude.header_info.num_output_sections_with_content;
    add(line, "identity", &prelude.identity)?;
    add(line, "headers", &headers)?;
    let symbol = prelude.entry_symbol_id.map(|symbol| symbol.as_u32());
    add(
        line,
        "entry",
        &(symbol, layout.resolved_entry_symbol_address()),
    )
}

/// Adds all that a layout lends.
fn add_layout(alloc: Global, line: &mut String, layout: &Layout<'_>) -> Result<(), AllocError> {
    add_thunks(line, layout)?;
    add_sorted(line, layout)?;
    add_singletons(line, layout)?;
    add_merged(line, layout)?;
    add(line, "live", &layout.live_marks())?;
    add(line, "at", &layout.section_addresses())?;
    add_deleted(alloc, line, layout)?;
    add_second(line, layout)?;
    add_prelude(line, layout)
}

/// Adds all that the layout lends that was computed, or why there is none.
fn add_computed(
    alloc: Global,
    line: &mut String,
    computed: &Result<Layout<'_>, LayoutError>,
) -> Result<(), AllocError> {
    match computed {
        Ok(layout) => add_layout(alloc, line, layout),
        Err(error) => add(line, "refused", error),
    }
}

/// Adds all that the layout of a link lends.
pub fn add_lent(alloc: Global, line: &mut String, link: &LinkInput) -> Result<(), AllocError> {
    let computed = compute_alone(alloc, link, &Small64, &Small64Arch);
    let added = add_computed(alloc, line, &computed);
    drop(computed);
    added
}

/// Lists and answers.
const LENT: &str = r#"
# Two blocks, of which only the first has a thunk.
{"options":{"branch_range":3145728},"plan":{"page":16,"sections":[{"attrs":5,"parts":[[1,false]]}],"segments":[{"kind":"load"}],"events":[["seg",0],["sec",0],["endseg",0]],"primary":0},"groups":[[{"kind":"prelude"}],[{"kind":"object","symbols":[{"at":["undef"],"def":1}],"sections":[{"slot":"must","attrs":4,"size":786432,"relocs":[[0,"Relative",0,0,true]]}]},{"kind":"object","sections":[{"slot":"must","attrs":4,"size":786432}]},{"kind":"object","sections":[{"slot":"must","attrs":4,"size":786432}]},{"kind":"object","symbols":[{"at":["sec",0,0]}],"sections":[{"slot":"must","attrs":4,"size":786432}]}]]} => thunks 1 blocks [Some(786432), Some(2359312)] block (Some(786432), Some(786448)) block (Some(2359312), Some(2359328)) sorted no singletons merged 0 live [true, true, true, true] at [0, 786448, 1572880, 2359312] deleted section (Some(0), Some((0, 0, None, None))) identity None headers 1 entry (None, Ok(None))
# A thunk of a block that nobody owns.
{"plan":{"page":16,"sections":[{"attrs":5,"parts":[[1,false]]},{"attrs":5,"parts":[[1,false]]}],"segments":[{"kind":"load"}],"events":[["seg",0],["sec",0],["sec",1],["endseg",0]],"primary":1},"groups":[[{"kind":"prelude"}],[{"kind":"object","sections":[{"slot":"must","part":0,"size":4,"attrs":4,"relocs":[[0,"Relative",0,0,true]]},{"slot":"must","part":1,"size":0},{"slot":"unloaded","part":0,"size":2097153,"attrs":4}],"symbols":[{"at":["sec",1,0]}]}]],"options":{"branch_range":2097153}} => thunks 1 blocks [None] block (None, None) sorted no singletons merged 0 0 live [true, true, false] at [0, 4, 0] deleted section (Some(0), Some((0, 0, None, None))) section (Some(4), Some((4, 0, None, None))) section (None, None) identity None headers 2 entry (None, Ok(None))
# Sorted sections of two files and two parts, one without bytes, and one that nothing keeps.
{"plan":{"page":16,"sections":[{"attrs":1,"parts":[[4,false],[2,false],[1,false]]}],"segments":[{"kind":"load"}],"events":[["seg",0],["sec",0],["endseg",0]]},"groups":[[{"kind":"prelude"}],[{"kind":"object","sections":[{"slot":"must","part":1,"size":2,"name":"b","sorted":true},{"slot":"must","part":0,"size":3,"name":"a","sorted":true},{"slot":"must","part":0,"size":3}],"symbols":[{"at":["common",0,4]}]}],[{"kind":"object","sections":[{"slot":"must","part":0,"size":1},{"slot":"unloaded","part":0,"size":9,"name":"a","sorted":true},{"slot":"must","part":0,"size":0,"name":"","sorted":true}]}]],"options":{"entry":0}} => thunks 0 blocks [] sorted 2.0 2 in 0 takes 0 by 4 1.0 1 in 0 takes 4 by 4 1.0 0 in 1 takes 2 by 2 no singletons merged 0 live [true, true, true, true, false, true] at [16, 12, 0, 8, 0, 12] deleted section (Some(16), Some((16, 0, None, None))) section (Some(12), Some((12, 0, None, None))) section (Some(0), Some((0, 0, None, None))) identity None headers 1 entry (Some(0), Ok(Some(4)))
# Singletons of two groups behind four emitted sections.
{"options":{"output":"partial"},"plan":{"page":1,"sections":[{"attrs":1,"parts":[[1,false]],"emit":"always"},{"attrs":1,"parts":[[1,false]],"emit":"always"},{"attrs":7,"parts":[[1,false]],"emit":"always"},{"parts":[[1,false]],"emit":"always"},{"parts":[[1,false]],"emit":"always"}],"events":[["sec",0],["sec",1],["sec",2],["sec",3],["sec",4]],"singletons":2},"groups":[[{"kind":"prelude"}],[{"kind":"object","sections":[{"slot":"must","part":2,"size":1,"attrs":4,"name":"first"},{"slot":"unloaded","part":2,"size":1},{"slot":"must","part":2,"size":2}]}],[{"kind":"object","sections":[{"slot":"must","part":2,"size":3,"name":"x"}]}]]} => thunks 0 blocks [] sorted singletons [(0, 0), (2, 7), (1, 2)] merged 0 0 0 0 0 live [true, false, true, true] at [0, 0, 1, 3] deleted section (Some(0), Some((0, 0, None, None))) section (None, None) section (Some(1), Some((1, 0, None, None))) identity None headers 7 entry (None, Ok(None))
# What is deleted, merged data behind it, and the identity.
{"options":{"relax":true,"identity":"demo","entry":1},"plan":{"page":1,"base":["num",4096],"sections":[{"attrs":5,"parts":[[1,false]]},{"attrs":1,"parts":[[4,false],[1,false]]}],"segments":[{"kind":"load"}],"events":[["seg",0],["sec",0],["sec",1],["endseg",0]]},"groups":[[{"kind":"prelude"}],[{"kind":"object","sections":[{"slot":"must","part":0,"size":16,"attrs":4,"relax":[[4,0,100,4]]},{"slot":"must","part":1,"size":4},{"slot":"merge","part":2,"size":2,"data":"6100","strings":true}],"symbols":[{"at":["sec",1,0]},{"at":["sec",2,1],"name":"m"}]}]]} => thunks 0 blocks [] sorted no singletons merged 0 4112 live [true, true, false] at [4096, 4108, 0] deleted 1/0 4+4 section (Some(4096), Some((4096, 0, None, None))) section (Some(4108), Some((4108, 0, None, None))) section (None, None) identity Some("demo") headers 2 entry (Some(1), Ok(Some(4113)))
# An empty section at the greatest address: the word for none is its address, which other calls tell.
{"options":{"entry":0},"plan":{"page":1,"sections":[{"attrs":1,"parts":[[1,false]]}],"segments":[{"kind":"load"}],"events":[["seg",0],["sec",0],["endseg",0]]},"groups":[[{"kind":"prelude"}],[{"kind":"object","sections":[{"slot":"must","size":18446744073709551615},{"slot":"must","size":0}],"symbols":[{"at":["sec",1,0]}]}]]} => thunks 0 blocks [] sorted no singletons merged 0 live [true, true] at [0, 18446744073709551615] deleted section (Some(0), Some((0, 0, None, None))) section (None, None) identity None headers 1 entry (Some(0), Ok(Some(18446744073709551615)))
# Entries: of a file that isn't loaded, one that only the dynamic linker knows, and ones that have an address.
@ {"options":{"entry":0},"plan":{"page":1},"groups":[[{"kind":"prelude"}],[{"kind":...}]]}
"notloaded","symbols":[{"at":["dyn"]}] => thunks 0 blocks [] sorted no singletons merged live [] at [] deleted identity None headers 0 entry (Some(0), Err(NotLoaded))
"dynamic","symbols":[{"at":["dyn"],"flags":2}] => thunks 0 blocks [] sorted no singletons merged live [] at [] deleted identity None headers 0 entry (Some(0), Err(NotAnAddress))
"dynamic","symbols":[{"at":["dyn"],"flags":3}] | "dynamic","symbols":[{"at":["dyn"]}] | "object","symbols":[{"at":["undef"]}] => thunks 0 blocks [] sorted no singletons merged live [] at [] deleted identity None headers 0 entry (Some(0), Ok(Some(0)))
"object","symbols":[{"at":["undef"],"def":1},{"at":["abs",7]}] => thunks 0 blocks [] sorted no singletons merged live [] at [] deleted identity None headers 0 entry (Some(1), Ok(Some(7)))
"#;

#[test]
fn lists_are_lent(rt: HostRuntime) -> Result<(), Fail> {
    expect_rows(&rt, rt.alloc(), Asked::Lent, LENT)
}
