//! Layouts whose sections are moved in the file, and what is told of groups and files.

use crate::rows::{Asked, expect_rows};
use lk_answers::files::ObjectLayout;
use lk_answers::section_resolution::SectionResolutions;
use lk_answers::{Answers, FileLayout, GroupLayout};
use lk_compute::compute_alone;
use lk_layout::{Layout, LayoutError, Small64Arch};
use lk_link::ids::OutputSectionId;
use lk_link::{LinkInput, Small64};
use lk_place::{OutputRecordLayout, SegmentFileLayout};
use std::alloc::{AllocError, Global};
use std::test::Fail;

/// Where a section is to go, and in which kind of file.
#[derive(Clone, Copy)]
struct Move {
    section: u32,
    start: u64,
    kind: SegmentFileLayout,
}

/// The move that words tell, as `1 32 compacted`.
fn move_of(words: &str) -> Move {
    let (section, rest) = words.split_once(' ').unwrap_or((words, ""));
    let (start, kind) = rest.split_once(' ').unwrap_or((rest, ""));
    Move {
        section: section.parse::<u32>().unwrap_or(0),
        start: start.parse::<u64>().unwrap_or(0),
        kind: if kind == "compacted" {
            SegmentFileLayout::Compacted
        } else {
            SegmentFileLayout::FromSections
        },
    }
}

/// Adds what each record takes in the file.
fn add_ranges(
    line: &mut String,
    what: &str,
    records: &[OutputRecordLayout],
) -> Result<(), AllocError> {
    write!(line, ", {what}")?;
    for one in records {
        let (start, size) = (one.file_offset, one.file_size);
        write!(line, " {start}+{size}")?;
    }
    Ok(())
}

/// Adds what is told of the file.
fn add_file(line: &mut String, layout: &Layout<'_>) -> Result<(), AllocError> {
    add_ranges(line, "sections", layout.section_layouts())?;
    add_ranges(line, "parts", layout.section_part_layouts())?;
    add_ranges(line, "joined", layout.merged_section_layouts())?;
    write!(line, ", segments")?;
    for one in layout.segment_layouts() {
        let (start, size) = (one.sizes.file_offset, one.sizes.file_size);
        write!(line, " {start}+{size}")?;
    }
    Ok(())
}

/// Moves the section, if it is there.
fn moved(layout: &mut Layout<'_>, asked: Move) -> Option<u64> {
    let section = OutputSectionId::from_u32(asked.section);
    if section.as_usize() < layout.link().plan.sections.len() {
        layout.set_section_file_range(section, asked.start)
    } else {
        None
    }
}

/// Adds where the section ends, and what is told of the file then.
fn add_move(
    alloc: Global,
    line: &mut String,
    layout: &mut Layout<'_>,
    asked: Move,
) -> Result<(), AllocError> {
    match moved(layout, asked) {
        Some(end) => write!(line, "{end}")?,
        None => write!(line, "none")?,
    }
    layout.refresh_file_layouts(alloc, asked.kind)?;
    add_file(line, layout)
}

/// Adds what is told where a section of what was computed is moved.
fn add_move_in(
    alloc: Global,
    line: &mut String,
    computed: &mut Result<Layout<'_>, LayoutError>,
    asked: Move,
) -> Result<(), AllocError> {
    match computed {
        Ok(layout) => add_move(alloc, line, layout, asked),
        Err(LayoutError::NoMemory) => Err(AllocError),
        Err(_) => write!(line, "refused"),
    }
}

/// Adds what is told where a section of a link is moved.
pub fn add_moved(
    alloc: Global,
    line: &mut String,
    link: &LinkInput,
    words: &str,
) -> Result<(), AllocError> {
    let mut computed = compute_alone(alloc, link, &Small64, &Small64Arch);
    let added = add_move_in(alloc, line, &mut computed, move_of(words));
    drop(computed);
    added
}

/// Sections that are moved in the file, by number, start and kind of file: where they end, and what all take there then.
const MOVED: &str =
    r#"@ ... / {"plan":{"page":4096,"base":["num",4096],"sections":[{"name":"A","attrs":1,"parts":[[8,false]]},{"name":"B","attrs":1,"parts":[[1,false]]},{"name":"C","attrs":17,"parts":[[16,false]]}],"segments":[{"kind":"load"}],"events":[["seg",0],["sec",0],["sec",1],["sec",2],["endseg",0]]},"groups":[[{"kind":"prelude"}],[{"kind":"object","name":"a.o","sections":[{"slot":"must","part":0,"size":8},{"slot":"must","part":1,"size":7},{"slot":"must","part":2,"size":16}]}]]}
1 32 sections | 1 32 compacted => 39, sections 0+8 32+7 15+0, parts 0+8 32+7 15+0, joined 0+8 32+7 15+0, segments 0+39
# A section without bytes of the file.
2 100 sections => 100, sections 0+8 8+7 100+0, parts 0+8 8+7 100+0, joined 0+8 8+7 100+0, segments 0+100
2 100 compacted => 100, sections 0+8 8+7 100+0, parts 0+8 8+7 100+0, joined 0+8 8+7 100+0, segments 0+15
# The greatest start behind which all 15 bytes have room, and the next one, where nothing is changed.
0 18446744073709551600 sections => 18446744073709551608, sections 18446744073709551600+8 8+7 15+0, parts 18446744073709551600+8 8+7 15+0, joined 18446744073709551600+8 8+7 15+0, segments 8+18446744073709551600
0 18446744073709551601 sections | 2 18446744073709551615 compacted => none, sections 0+8 8+7 15+0, parts 0+8 8+7 15+0, joined 0+8 8+7 15+0, segments 0+15
# Two segments: what is compacted begins where the one before it ends.
@ ... / {"plan":{"page":16,"sections":[{"attrs":1,"parts":[[1,false]]},{"attrs":1,"parts":[[4,false],[1,false]]}],"segments":[{"kind":"load"},{"kind":"load"}],"events":[["seg",0],["sec",0],["endseg",0],["seg",1],["sec",1],["endseg",1]]},"groups":[[{"kind":"prelude"}],[{"kind":"object","sections":[{"slot":"must","part":0,"size":3},{"slot":"must","part":1,"size":5},{"slot":"must","part":2,"size":2}]}]]}
1 50 sections => 60, sections 0+3 50+10, parts 0+3 50+8 58+2, joined 0+3 50+10, segments 0+3 50+10
1 50 compacted => 60, sections 0+3 50+10, parts 0+3 50+8 58+2, joined 0+3 50+10, segments 0+3 3+57
# A secondary section whose bytes come behind its primary's.
@ ... / {"plan":{"page":16,"sections":[{"attrs":1,"parts":[[1,false]]},{"attrs":1,"parts":[[1,false]],"primary":0,"counters":true}],"segments":[{"kind":"load"}],"events":[["seg",0],["sec",0],["sec",1],["endseg",0]]},"groups":[[{"kind":"prelude"}],[{"kind":"object","sections":[{"slot":"must","part":0,"size":3},{"slot":"must","part":1,"size":5}]}]]}
1 20 sections => 25, sections 0+3 20+5, parts 0+3 20+5, joined 0+25 0+0, segments 0+25
"#;

#[test]
fn sections_are_moved_in_the_file(rt: HostRuntime) -> Result<(), Fail> {
    expect_rows(&rt, rt.alloc(), Asked::Moved, MOVED)
}

/// Adds where the sections of a file stand.
fn add_resolutions(line: &mut String, all: &SectionResolutions<'_>) -> Result<(), AllocError> {
    for index in 0..all.len() {
        match all.get(index).and_then(|one| one.address()) {
            Some(address) => write!(line, " {address}")?,
            None => write!(line, " -")?,
        }
    }
    Ok(())
}

/// Adds which ranges are deleted of the section of an object with this index.
fn add_deleted(
    alloc: Global,
    line: &mut String,
    object: &ObjectLayout<'_>,
    index: usize,
) -> Result<(), AllocError> {
    let Ok(index) = u32::try_from(index) else {
        return Ok(());
    };
    let deleted = object.section_relax_deltas;
    if let Some(deltas) = deleted.and_then(|all| all.get(index)) {
        let ranges = deltas.ranges(alloc)?;
        for (start, len) in &ranges {
            write!(line, " less {len} at {start}")?;
        }
    }
    Ok(())
}

/// Adds what became of each section of an object, and which ranges of it are deleted.
fn add_sections(
    alloc: Global,
    line: &mut String,
    object: &ObjectLayout<'_>,
) -> Result<(), AllocError> {
    write!(line, " of")?;
    for index in 0..object.sections.len() {
        add_slot(line, object, index)?;
        add_deleted(alloc, line, object, index)?;
    }
    Ok(())
}

/// Adds what became of the section of an object with this index.
fn add_slot(line: &mut String, object: &ObjectLayout<'_>, index: usize) -> Result<(), AllocError> {
    let Ok(index) = u32::try_from(index) else {
        return Ok(());
    };
    match object.sections.get(index) {
        Some(slot) => write!(line, " {slot:?}"),
        None => write!(line, " none"),
    }
}

/// Adds what is told of an object.
fn add_object(
    alloc: Global,
    line: &mut String,
    object: &ObjectLayout<'_>,
) -> Result<(), AllocError> {
    let first = object.symbol_id_range.start;
    write!(line, " from {first} at")?;
    add_resolutions(line, &object.section_resolutions)?;
    add_sections(alloc, line, object)?;
    let block = object.thunk_block_id.as_usize();
    write!(line, " block {block}")?;
    if object.owns_thunk_block {
        write!(line, " owned")?;
    }
    Ok(())
}

/// Adds what is told of a file.
fn add_file_layout(
    alloc: Global,
    line: &mut String,
    file: &FileLayout<'_>,
) -> Result<(), AllocError> {
    write!(line, " {file:?}")?;
    match file {
        FileLayout::Object(object) => add_object(alloc, line, object),
        FileLayout::Prelude(prelude) => {
            let identity = prelude.identity.unwrap_or("-");
            let count = prelude.header_info.num_output_sections_with_content;
            write!(line, " {identity} {count}")
        }
        FileLayout::Epilogue(epilogue) => {
            let start = epilogue.dynsym_start_index;
            write!(line, " {start}")
        }
        _ => Ok(()),
    }
}

/// So many groups are told, and so many files of each.
const TOLD: u32 = 8;

/// Adds what is told of a group.
fn add_group(
    alloc: Global,
    line: &mut String,
    group: &GroupLayout<'_, '_>,
) -> Result<(), AllocError> {
    let (names, dynamic) = (group.strtab_start_offset, group.dynstr_start_offset);
    let locals = group.symtab_local_start_index;
    let globals = group.symtab_global_start_index;
    write!(line, "{group} {names} {dynamic} {locals} {globals} [")?;
    for number in 0..TOLD {
        if let Some(file) = group.files.get(number) {
            add_file_layout(alloc, line, &file)?;
        }
    }
    write!(line, " ]")
}

/// Adds what is told of all groups.
fn add_groups(alloc: Global, line: &mut String, layout: &Layout<'_>) -> Result<(), AllocError> {
    let groups = layout.group_layouts();
    for number in 0..TOLD {
        if let Some(group) = groups.get(number) {
            if number > 0 {
                line.push_str(", ")?;
            }
            add_group(alloc, line, &group)?;
        }
    }
    Ok(())
}

/// Adds what is told of the groups of what was computed.
fn add_groups_in(
    alloc: Global,
    line: &mut String,
    computed: &Result<Layout<'_>, LayoutError>,
) -> Result<(), AllocError> {
    match computed {
        Ok(layout) => add_groups(alloc, line, layout),
        Err(LayoutError::NoMemory) => Err(AllocError),
        Err(_) => write!(line, "refused"),
    }
}

/// Adds what is told of the groups of a link.
pub fn add_told(alloc: Global, line: &mut String, link: &LinkInput) -> Result<(), AllocError> {
    let computed = compute_alone(alloc, link, &Small64, &Small64Arch);
    let added = add_groups_in(alloc, line, &computed);
    drop(computed);
    added
}

/// Groups: what each is called, where it begins in the names of symbols and of dynamic symbols and among local symbols and the others, and
/// its files.
const GROUPS: &str = r#"# Three sections, and no tables.
{"plan":{"page":4096,"base":["num",4096],"sections":[{"name":"A","attrs":1,"parts":[[8,false]]},{"name":"B","attrs":1,"parts":[[1,false]]},{"name":"C","attrs":17,"parts":[[16,false]]}],"segments":[{"kind":"load"}],"events":[["seg",0],["sec",0],["sec",1],["sec",2],["endseg",0]]},"groups":[[{"kind":"prelude"}],[{"kind":"object","name":"a.o","sections":[{"slot":"must","part":0,"size":8},{"slot":"must","part":1,"size":7},{"slot":"must","part":2,"size":16},{"slot":"unloaded"}]}]]} => <prelude> 0 0 0 0 [ <prelude> - 3 ], a.o (1.0) 0 0 0 0 [ a.o (1.0) from 0 at 4096 4104 4112 - of Loaded(Section { size: 8 }) Loaded(Section { size: 7 }) Loaded(Section { size: 16 }) Unloaded(UnloadedSection { needs_sorting: false }) block 0 ], <epilogue> 0 0 0 0 [ <epilogue> 0 ]
# Files of each kind, and a group without files.
{"plan":{"page":16},"groups":[[{"kind":"prelude"},{"kind":"script","name":"x.ld"}],[],[{"kind":"dynamic","name":"libc.so"}],[{"kind":"synthetic"}],[{"kind":"notloaded","name":"b.o"}]],"options":{"identity":"demo"}} => Group with 2 files. Rerun with WILD_FILES_PER_GROUP=1 0 0 0 0 [ <prelude> demo 0 x.ld ], Group with 0 files. Rerun with WILD_FILES_PER_GROUP=1 0 0 0 0 [ ], libc.so (2.0) 0 0 0 0 [ libc.so (2.0) ], <synthetic> 0 0 0 0 [ <synthetic> ], <not loaded> 0 0 0 0 [ <not loaded> ], <epilogue> 0 0 0 0 [ <epilogue> 0 ]
# Tables: the prelude has a local symbol and a name of its own, and the byte before the names of dynamic symbols, of which there are only exported ones.
{"options":{"output":"shared"},"plan":{"page":4096,"sections":[{"attrs":1,"parts":[[8,false]]},{"attrs":1,"parts":[[1,false]]},{"attrs":5,"parts":[[16,false]]},{"attrs":5,"parts":[[4,false]]},{"attrs":3,"parts":[[8,false]]},{"attrs":0,"parts":[[8,false],[4,false]]},{"attrs":0,"parts":[[1,false]]}],"segments":[{"kind":"load"}],"events":[["seg",0],["sec",0],["sec",1],["sec",2],["sec",3],["sec",4],["endseg",0],["sec",5],["sec",6]],"dynsym":0,"dynstr":1,"plt":2,"got":4,"symtab_local":5,"symtab_global":6,"strtab":7},"groups":[[{"kind":"prelude"}],[{"kind":"object","name":"a.o","symbols":[{"name":"start","at":["sec",0,0]},{"name":"next","at":["sec",0,8]},{"name":"inner","at":["sec",0,16],"local":true}],"sections":[{"slot":"must","part":3,"size":20,"attrs":4,"relocs":[[0,"PltRelative",0,0,false],[4,"Got",1,0,false],[8,"Relative",2,0,false]]}]}],[{"kind":"object","name":"b.o","symbols":[{"name":"far","at":["sec",0,0]}],"sections":[{"slot":"must","part":3,"size":4,"attrs":4}]},{"kind":"notloaded"}]]} => <prelude> 0 0 0 0 [ <prelude> - 7 ], a.o (1.0) 1 1 1 0 [ a.o (1.0) from 0 at 128 of Loaded(Section { size: 20 }) block 0 ], Group with 2 files. Rerun with WILD_FILES_PER_GROUP=1 18 1 2 2 [ b.o (2.0) from 3 at 148 of Loaded(Section { size: 4 }) block 0 <not loaded> ], <epilogue> 22 1 2 3 [ <epilogue> 1 ]
# Symbols that only the dynamic linker knows: two of one file and one of another, behind the entry and the byte of the prelude; a fourth that nothing asks for; and what is exported stands behind them.
{"options":{"output":"dynamic","export_all":true},"plan":{"page":16,"sections":[{"attrs":5,"parts":[[1,false]]},{"attrs":1,"parts":[[8,false],[1,false]]}],"segments":[{"kind":"load"}],"events":[["seg",0],["sec",0],["sec",1],["endseg",0]],"dynsym":1,"dynstr":2},"groups":[[{"kind":"prelude"}],[{"kind":"dynamic","name":"libc.so","symbols":[{"at":["dyn"],"flags":2,"name":"puts"},{"at":["dyn"],"flags":2,"name":"exit"},{"at":["dyn"],"flags":2,"name":"unused"}]}],[{"kind":"object","name":"a.o","symbols":[{"at":["undef"],"def":0,"name":"puts"},{"at":["undef"],"def":1,"name":"exit"},{"at":["undef"],"def":7,"name":"sin"},{"at":["sec",0,0],"name":"main"}],"sections":[{"slot":"must","size":12,"attrs":4,"relocs":[[0,"Relative",0,0,false],[4,"Relative",1,0,false],[8,"Relative",2,0,false]]}]}],[{"kind":"dynamic","name":"libm.so","symbols":[{"at":["dyn"],"flags":2,"name":"sin"}]}]]} => <prelude> 0 0 0 0 [ <prelude> - 2 ], libc.so (1.0) 0 1 0 0 [ libc.so (1.0) ], a.o (2.0) 0 11 0 0 [ a.o (2.0) from 3 at 0 of Loaded(Section { size: 12 }) block 0 ], libm.so (3.0) 0 11 0 0 [ libm.so (3.0) ], <epilogue> 0 15 0 0 [ <epilogue> 4 ]
# Four objects of which the first names the last: two blocks of two each, each owned by its first object.
{"options":{"branch_range":3145728},"plan":{"page":16,"sections":[{"attrs":5,"parts":[[1,false]]}],"segments":[{"kind":"load"}],"events":[["seg",0],["sec",0],["endseg",0]],"primary":0},"groups":[[{"kind":"prelude"}],[{"kind":"object","name":"a","symbols":[{"at":["undef"],"def":1}],"sections":[{"slot":"must","attrs":4,"size":786432,"relocs":[[0,"Relative",0,0,true]]}]},{"kind":"object","name":"b","sections":[{"slot":"must","attrs":4,"size":786432}]},{"kind":"object","name":"c","sections":[{"slot":"must","attrs":4,"size":786432}]},{"kind":"object","name":"d","symbols":[{"at":["sec",0,0]}],"sections":[{"slot":"must","attrs":4,"size":786432}]}]]} => <prelude> 0 0 0 0 [ <prelude> - 1 ], Group with 4 files. Rerun with WILD_FILES_PER_GROUP=1 0 0 0 0 [ a (1.0) from 0 at 0 of Loaded(Section { size: 786432 }) block 0 owned b (1.1) from 1 at 786448 of Loaded(Section { size: 786432 }) block 0 c (1.2) from 1 at 1572880 of Loaded(Section { size: 786432 }) block 1 owned d (1.3) from 1 at 2359312 of Loaded(Section { size: 786432 }) block 1 ], <epilogue> 0 0 0 0 [ <epilogue> 0 ]
# Blocks over two groups, with an object in between that has no code and needs no thunks.
{"options":{"branch_range":2097652},"plan":{"page":16,"sections":[{"attrs":5,"parts":[[1,false]]}],"segments":[{"kind":"load"}],"events":[["seg",0],["sec",0],["endseg",0]],"primary":0},"groups":[[{"kind":"prelude"}],[{"kind":"object","name":"a","sections":[{"slot":"must","size":100},{"slot":"unloaded","attrs":4,"size":2097652}]},{"kind":"object","name":"b","sections":[{"slot":"must","size":200}]},{"kind":"object","name":"c"},{"kind":"object","name":"d","sections":[{"slot":"must","size":100}]}],[{"kind":"object","name":"e","sections":[{"slot":"must","size":200}]},{"kind":"object","name":"f","sections":[{"slot":"must","size":100}]},{"kind":"object","name":"g","sections":[{"slot":"must","size":200}]},{"kind":"object","name":"h","sections":[{"slot":"must","size":100}]}]]} => <prelude> 0 0 0 0 [ <prelude> - 1 ], Group with 4 files. Rerun with WILD_FILES_PER_GROUP=1 0 0 0 0 [ a (1.0) from 0 at 0 - of Loaded(Section { size: 100 }) Unloaded(UnloadedSection { needs_sorting: false }) block 0 owned b (1.1) from 0 at 100 of Loaded(Section { size: 200 }) block 0 c (1.2) from 0 at of block 0 d (1.3) from 0 at 300 of Loaded(Section { size: 100 }) block 0 ], Group with 4 files. Rerun with WILD_FILES_PER_GROUP=1 0 0 0 0 [ e (2.0) from 0 at 400 of Loaded(Section { size: 200 }) block 1 f (2.1) from 0 at 600 of Loaded(Section { size: 100 }) block 1 owned g (2.2) from 0 at 700 of Loaded(Section { size: 200 }) block 1 h (2.3) from 0 at 900 of Loaded(Section { size: 100 }) block 1 ], <epilogue> 0 0 0 0 [ <epilogue> 0 ]
# What relaxation deletes of sections.
{"options":{"relax":true},"plan":{"page":4096,"base":["num",4096],"sections":[{"attrs":5,"parts":[[1,false]]},{"attrs":5,"parts":[[64,false]]}],"segments":[{"kind":"load"}],"events":[["seg",0],["sec",0],["sec",1],["endseg",0]]},"groups":[[{"kind":"prelude"}],[{"kind":"object","name":"a","sections":[{"slot":"must","part":0,"size":8,"attrs":4,"relax":[[0,0,100,4]]},{"slot":"must","part":0,"size":8,"attrs":4,"relax":[[4,1,56,4]]},{"slot":"must","part":1,"size":16,"attrs":4}],"symbols":[{"at":["sec",1,0]},{"at":["sec",2,0]}]}]]} => <prelude> 0 0 0 0 [ <prelude> - 2 ], a (1.0) 0 0 0 0 [ a (1.0) from 0 at 4096 4100 4160 of Loaded(Section { size: 4 }) less 4 at 0 Loaded(Section { size: 4 }) less 4 at 4 Loaded(Section { size: 16 }) block 0 ], <epilogue> 0 0 0 0 [ <epilogue> 0 ]
"#;

#[test]
fn groups_are_told_with_their_files(rt: HostRuntime) -> Result<(), Fail> {
    expect_rows(&rt, rt.alloc(), Asked::Groups, GROUPS)
}
