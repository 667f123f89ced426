//! Layouts: what is reported and refused.

ghost use Rattle.std.specs.Prelude.{◌≡◌, ◌≤◌, true};

use crate::rows::{Asked, expect_rows};
use lk_check::check_link;
use lk_compute::compute;
use lk_layout::{Layout, LayoutError, Small64Arch};
use lk_link::{Gate, LinkInput, NoGate, Small64};
use lk_report::report_text_by_workers;
use lk_test_rows::add;
use std::alloc::{AllocError, Global};
use std::sync::Wait;
use std::sync::atomic::{AtomicU64, Ordering};
use std::test::Fail;
use std::thread::Threads;

/// Two sections in segments of their own; references that can't be met in three groups; and symbols of three groups that are told to the
/// dynamic linker and have entries in tables, which go on from group to group: what as many workers as are told give, and one behind a
/// gate that it may not enter.
const TWO_SEGMENTS: &str = r#"
{"plan":{"page":4096,"base":["num",4096],"sections":[{"attrs":1,"parts":[[8,false]]},{"attrs":1,"parts":[[1,false]]}],"segments":[{"kind":"load"},{"kind":"load"}],"events":[["seg",0],["sec",0],["endseg",0],["seg",1],["sec",1],["endseg",1]]},"groups":[[{"kind":"prelude"}],[{"kind":"object","sections":[{"slot":"must","size":8},{"slot":"must","part":1,"size":7}]}]]} => none "layout\nsection 0 index 0 mem 0x1000 8 file 0x0 8 align 8 lma 0x1000 attrs 1\nsection 1 index 1 mem 0x2008 7 file 0x8 7 align 1 lma 0x2008 attrs 1\npart 0 mem 0x1000 8 file 0x0 8 align 8\npart 1 mem 0x2008 7 file 0x8 7 align 1\nsegment 0 mem 0x1000 8 file 0x0 8 align 8\nsegment 1 mem 0x2008 7 file 0x8 7 align 1\nlive 1 0 0 0x1000 8\nlive 1 0 1 0x2008 7\nentry -\nend\n" one "layout\nsection 0 index 0 mem 0x1000 8 file 0x0 8 align 8 lma 0x1000 attrs 1\nsection 1 index 1 mem 0x2008 7 file 0x8 7 align 1 lma 0x2008 attrs 1\npart 0 mem 0x1000 8 file 0x0 8 align 8\npart 1 mem 0x2008 7 file 0x8 7 align 1\nsegment 0 mem 0x1000 8 file 0x0 8 align 8\nsegment 1 mem 0x2008 7 file 0x8 7 align 1\nlive 1 0 0 0x1000 8\nlive 1 0 1 0x2008 7\nentry -\nend\n" two "layout\nsection 0 index 0 mem 0x1000 8 file 0x0 8 align 8 lma 0x1000 attrs 1\nsection 1 index 1 mem 0x2008 7 file 0x8 7 align 1 lma 0x2008 attrs 1\npart 0 mem 0x1000 8 file 0x0 8 align 8\npart 1 mem 0x2008 7 file 0x8 7 align 1\nsegment 0 mem 0x1000 8 file 0x0 8 align 8\nsegment 1 mem 0x2008 7 file 0x8 7 align 1\nlive 1 0 0 0x1000 8\nlive 1 0 1 0x2008 7\nentry -\nend\n" eight "layout\nsection 0 index 0 mem 0x1000 8 file 0x0 8 align 8 lma 0x1000 attrs 1\nsection 1 index 1 mem 0x2008 7 file 0x8 7 align 1 lma 0x2008 attrs 1\npart 0 mem 0x1000 8 file 0x0 8 align 8\npart 1 mem 0x2008 7 file 0x8 7 align 1\nsegment 0 mem 0x1000 8 file 0x0 8 align 8\nsegment 1 mem 0x2008 7 file 0x8 7 align 1\nlive 1 0 0 0x1000 8\nlive 1 0 1 0x2008 7\nentry -\nend\n" many "layout\nsection 0 index 0 mem 0x1000 8 file 0x0 8 align 8 lma 0x1000 attrs 1\nsection 1 index 1 mem 0x2008 7 file 0x8 7 align 1 lma 0x2008 attrs 1\npart 0 mem 0x1000 8 file 0x0 8 align 8\npart 1 mem 0x2008 7 file 0x8 7 align 1\nsegment 0 mem 0x1000 8 file 0x0 8 align 8\nsegment 1 mem 0x2008 7 file 0x8 7 align 1\nlive 1 0 0 0x1000 8\nlive 1 0 1 0x2008 7\nentry -\nend\n" alone "layout\nsection 0 index 0 mem 0x1000 8 file 0x0 8 align 8 lma 0x1000 attrs 1\nsection 1 index 1 mem 0x2008 7 file 0x8 7 align 1 lma 0x2008 attrs 1\npart 0 mem 0x1000 8 file 0x0 8 align 8\npart 1 mem 0x2008 7 file 0x8 7 align 1\nsegment 0 mem 0x1000 8 file 0x0 8 align 8\nsegment 1 mem 0x2008 7 file 0x8 7 align 1\nlive 1 0 0 0x1000 8\nlive 1 0 1 0x2008 7\nentry -\nend\n"
{"plan":{"page":16,"sections":[{"attrs":1,"parts":[[1,false]]}],"segments":[{"kind":"load"}],"events":[["seg",0],["sec",0],["endseg",0]]},"groups":[[{"kind":"prelude"}],[{"kind":"object","symbols":[{"at":["sec",1,0]}],"sections":[{"slot":"must","size":1,"relocs":[[0,"Absolute",0,0,false]]},{"slot":"discard","size":1}]}],[{"kind":"object","symbols":[{"at":["sec",0,0]},{"at":["undef"]}],"sections":[{"slot":"discard","size":1},{"slot":"must","size":2,"relocs":[[0,"Absolute",0,0,false]]}]}],[{"kind":"object","symbols":[{"at":["undef"]}],"sections":[{"slot":"must","size":2,"relocs":[[0,"Absolute",0,0,false]]}]}]]} => none "discarded: 1 0 1\ndiscarded: 2 0 0\nundefined: symbol 3 from 3 0 0 relocation 0" one "discarded: 1 0 1\ndiscarded: 2 0 0\nundefined: symbol 3 from 3 0 0 relocation 0" two "discarded: 1 0 1\ndiscarded: 2 0 0\nundefined: symbol 3 from 3 0 0 relocation 0" eight "discarded: 1 0 1\ndiscarded: 2 0 0\nundefined: symbol 3 from 3 0 0 relocation 0" many "discarded: 1 0 1\ndiscarded: 2 0 0\nundefined: symbol 3 from 3 0 0 relocation 0" alone "discarded: 1 0 1\ndiscarded: 2 0 0\nundefined: symbol 3 from 3 0 0 relocation 0"
{"options":{"output":"shared"},"plan":{"page":16,"sections":[{"attrs":5,"parts":[[4,false]]},{"attrs":3,"parts":[[8,false]]},{"attrs":5,"parts":[[16,false]]},{"attrs":1,"parts":[[8,false]]},{"attrs":1,"parts":[[1,false]]}],"segments":[{"kind":"load"}],"events":[["seg",0],["sec",0],["sec",1],["sec",2],["sec",3],["sec",4],["endseg",0]],"got":1,"plt":2,"dynsym":3,"dynstr":4},"groups":[[{"kind":"prelude"}],[{"kind":"object","symbols":[{"name":"a","at":["sec",0,0]},{"name":"b","at":["undef"],"def":2}],"sections":[{"slot":"must","size":8,"relocs":[[0,"PltRelative",0,0,false],[4,"Got",1,0,false]]}]}],[{"kind":"object","symbols":[{"name":"b","at":["sec",0,4]},{"name":"c","at":["sec",0,0]}],"sections":[{"slot":"must","size":8,"relocs":[[0,"Got",1,0,false],[4,"PltRelative",0,0,false]]}]}],[{"kind":"object","symbols":[{"name":"a","at":["undef"],"def":0},{"name":"d","at":["sec",0,0]}],"sections":[{"slot":"must","size":4,"relocs":[[0,"PltRelative",1,0,false],[0,"Got",0,0,false]]}]}]]} => none "layout\nsection 0 index 0 mem 0x0 20 file 0x0 20 align 4 lma 0x0 attrs 5\nsection 1 index 1 mem 0x18 32 file 0x18 32 align 8 lma 0x18 attrs 3\nsection 2 index 2 mem 0x40 48 file 0x40 48 align 16 lma 0x40 attrs 5\nsection 3 index 3 mem 0x70 120 file 0x70 120 align 8 lma 0x70 attrs 1\nsection 4 index 4 mem 0xe8 9 file 0xe8 9 align 1 lma 0xe8 attrs 1\npart 0 mem 0x0 20 file 0x0 20 align 4\npart 1 mem 0x18 32 file 0x18 32 align 8\npart 2 mem 0x40 48 file 0x40 48 align 16\npart 3 mem 0x70 120 file 0x70 120 align 8\npart 4 mem 0xe8 9 file 0xe8 9 align 1\nsegment 0 mem 0x0 241 file 0x0 241 align 16\nlive 1 0 0 0x0 8\nlive 2 0 0 0x8 8\nlive 3 0 0 0x10 4\nsymbol 0 0x0 8576 got 0x18 plt 0x40 dyn 1\nsymbol 2 0xc 8576 got 0x20 plt 0x50 dyn 2\nsymbol 3 0x8 8320 got 0x28 plt - dyn 3\nsymbol 5 0x10 8576 got 0x30 plt 0x60 dyn 4\nentry -\nend\n" one "layout\nsection 0 index 0 mem 0x0 20 file 0x0 20 align 4 lma 0x0 attrs 5\nsection 1 index 1 mem 0x18 32 file 0x18 32 align 8 lma 0x18 attrs 3\nsection 2 index 2 mem 0x40 48 file 0x40 48 align 16 lma 0x40 attrs 5\nsection 3 index 3 mem 0x70 120 file 0x70 120 align 8 lma 0x70 attrs 1\nsection 4 index 4 mem 0xe8 9 file 0xe8 9 align 1 lma 0xe8 attrs 1\npart 0 mem 0x0 20 file 0x0 20 align 4\npart 1 mem 0x18 32 file 0x18 32 align 8\npart 2 mem 0x40 48 file 0x40 48 align 16\npart 3 mem 0x70 120 file 0x70 120 align 8\npart 4 mem 0xe8 9 file 0xe8 9 align 1\nsegment 0 mem 0x0 241 file 0x0 241 align 16\nlive 1 0 0 0x0 8\nlive 2 0 0 0x8 8\nlive 3 0 0 0x10 4\nsymbol 0 0x0 8576 got 0x18 plt 0x40 dyn 1\nsymbol 2 0xc 8576 got 0x20 plt 0x50 dyn 2\nsymbol 3 0x8 8320 got 0x28 plt - dyn 3\nsymbol 5 0x10 8576 got 0x30 plt 0x60 dyn 4\nentry -\nend\n" two "layout\nsection 0 index 0 mem 0x0 20 file 0x0 20 align 4 lma 0x0 attrs 5\nsection 1 index 1 mem 0x18 32 file 0x18 32 align 8 lma 0x18 attrs 3\nsection 2 index 2 mem 0x40 48 file 0x40 48 align 16 lma 0x40 attrs 5\nsection 3 index 3 mem 0x70 120 file 0x70 120 align 8 lma 0x70 attrs 1\nsection 4 index 4 mem 0xe8 9 file 0xe8 9 align 1 lma 0xe8 attrs 1\npart 0 mem 0x0 20 file 0x0 20 align 4\npart 1 mem 0x18 32 file 0x18 32 align 8\npart 2 mem 0x40 48 file 0x40 48 align 16\npart 3 mem 0x70 120 file 0x70 120 align 8\npart 4 mem 0xe8 9 file 0xe8 9 align 1\nsegment 0 mem 0x0 241 file 0x0 241 align 16\nlive 1 0 0 0x0 8\nlive 2 0 0 0x8 8\nlive 3 0 0 0x10 4\nsymbol 0 0x0 8576 got 0x18 plt 0x40 dyn 1\nsymbol 2 0xc 8576 got 0x20 plt 0x50 dyn 2\nsymbol 3 0x8 8320 got 0x28 plt - dyn 3\nsymbol 5 0x10 8576 got 0x30 plt 0x60 dyn 4\nentry -\nend\n" eight "layout\nsection 0 index 0 mem 0x0 20 file 0x0 20 align 4 lma 0x0 attrs 5\nsection 1 index 1 mem 0x18 32 file 0x18 32 align 8 lma 0x18 attrs 3\nsection 2 index 2 mem 0x40 48 file 0x40 48 align 16 lma 0x40 attrs 5\nsection 3 index 3 mem 0x70 120 file 0x70 120 align 8 lma 0x70 attrs 1\nsection 4 index 4 mem 0xe8 9 file 0xe8 9 align 1 lma 0xe8 attrs 1\npart 0 mem 0x0 20 file 0x0 20 align 4\npart 1 mem 0x18 32 file 0x18 32 align 8\npart 2 mem 0x40 48 file 0x40 48 align 16\npart 3 mem 0x70 120 file 0x70 120 align 8\npart 4 mem 0xe8 9 file 0xe8 9 align 1\nsegment 0 mem 0x0 241 file 0x0 241 align 16\nlive 1 0 0 0x0 8\nlive 2 0 0 0x8 8\nlive 3 0 0 0x10 4\nsymbol 0 0x0 8576 got 0x18 plt 0x40 dyn 1\nsymbol 2 0xc 8576 got 0x20 plt 0x50 dyn 2\nsymbol 3 0x8 8320 got 0x28 plt - dyn 3\nsymbol 5 0x10 8576 got 0x30 plt 0x60 dyn 4\nentry -\nend\n" many "layout\nsection 0 index 0 mem 0x0 20 file 0x0 20 align 4 lma 0x0 attrs 5\nsection 1 index 1 mem 0x18 32 file 0x18 32 align 8 lma 0x18 attrs 3\nsection 2 index 2 mem 0x40 48 file 0x40 48 align 16 lma 0x40 attrs 5\nsection 3 index 3 mem 0x70 120 file 0x70 120 align 8 lma 0x70 attrs 1\nsection 4 index 4 mem 0xe8 9 file 0xe8 9 align 1 lma 0xe8 attrs 1\npart 0 mem 0x0 20 file 0x0 20 align 4\npart 1 mem 0x18 32 file 0x18 32 align 8\npart 2 mem 0x40 48 file 0x40 48 align 16\npart 3 mem 0x70 120 file 0x70 120 align 8\npart 4 mem 0xe8 9 file 0xe8 9 align 1\nsegment 0 mem 0x0 241 file 0x0 241 align 16\nlive 1 0 0 0x0 8\nlive 2 0 0 0x8 8\nlive 3 0 0 0x10 4\nsymbol 0 0x0 8576 got 0x18 plt 0x40 dyn 1\nsymbol 2 0xc 8576 got 0x20 plt 0x50 dyn 2\nsymbol 3 0x8 8320 got 0x28 plt - dyn 3\nsymbol 5 0x10 8576 got 0x30 plt 0x60 dyn 4\nentry -\nend\n" alone "layout\nsection 0 index 0 mem 0x0 20 file 0x0 20 align 4 lma 0x0 attrs 5\nsection 1 index 1 mem 0x18 32 file 0x18 32 align 8 lma 0x18 attrs 3\nsection 2 index 2 mem 0x40 48 file 0x40 48 align 16 lma 0x40 attrs 5\nsection 3 index 3 mem 0x70 120 file 0x70 120 align 8 lma 0x70 attrs 1\nsection 4 index 4 mem 0xe8 9 file 0xe8 9 align 1 lma 0xe8 attrs 1\npart 0 mem 0x0 20 file 0x0 20 align 4\npart 1 mem 0x18 32 file 0x18 32 align 8\npart 2 mem 0x40 48 file 0x40 48 align 16\npart 3 mem 0x70 120 file 0x70 120 align 8\npart 4 mem 0xe8 9 file 0xe8 9 align 1\nsegment 0 mem 0x0 241 file 0x0 241 align 16\nlive 1 0 0 0x0 8\nlive 2 0 0 0x8 8\nlive 3 0 0 0x10 4\nsymbol 0 0x0 8576 got 0x18 plt 0x40 dyn 1\nsymbol 2 0xc 8576 got 0x20 plt 0x50 dyn 2\nsymbol 3 0x8 8320 got 0x28 plt - dyn 3\nsymbol 5 0x10 8576 got 0x30 plt 0x60 dyn 4\nentry -\nend\n"
"#;

/// A gate that may be entered while it is open.
#[derive(Drop)]
struct Door {
    is_open: bool,
}

impl Gate for Door {
    ghost may_enter = { λ door. door.is_open ≡ true };

    fn enter(&self, _group: u32) {}
}

/// The report of a layout by so many workers; nothing where the link isn't well formed.
fn report_of(
    rt: &(impl Threads + Sync),
    alloc: Global,
    link: &LinkInput,
    layout: &Layout<'_>,
    workers: u32,
) -> Result<String, AllocError> {
    if check_link(link).is_err() {
        return Ok(String::new(alloc));
    }
    report_text_by_workers(rt, alloc, link, layout, workers)
}

/// The report of a layout by so many workers, or why there is none.
fn told_answer(
    rt: &(impl Threads + Sync),
    alloc: Global,
    link: &LinkInput,
    answer: &Result<Layout<'_>, LayoutError>,
    workers: u32,
) -> Result<String, AllocError> {
    match answer {
        Ok(layout) => report_of(rt, alloc, link, layout, workers),
        Err(error) => format!(in alloc; "{error:?}"),
    }
}

/// The report of the layout that so many workers make, behind a gate that two or more of them may enter.
fn told_layout<R: Threads + Wait + Sync, G: Gate + Sync>(
    rt: &R,
    alloc: Global,
    link: &LinkInput,
    workers: u32,
    gate: &G,
) -> Result<String, AllocError>
    requires { 2 ≤ workers → G.may_enter gate.now }
{
    let answer = compute(rt, alloc, link, &Small64, &Small64Arch, workers, gate);
    let told = told_answer(rt, alloc, link, &answer, workers);
    drop(answer);
    told
}

/// Adds the reports that workers make.
pub fn add_workers(
    rt: &(impl Threads + Wait + Sync),
    alloc: Global,
    line: &mut String,
    link: &LinkInput,
) -> Result<(), AllocError> {
    for (word, workers) in [
        ("none", 0),
        ("one", 1),
        ("two", 2),
        ("eight", 8),
        ("many", 100),
    ] {
        add(line, word, &told_layout(rt, alloc, link, workers, &NoGate)?)?;
    }
    let shut = Door { is_open: false };
    add(line, "alone", &told_layout(rt, alloc, link, 1, &shut)?)
}

#[test]
fn every_number_of_workers_lays_out(rt: HostRuntime) -> Result<(), Fail> {
    expect_rows(&rt, rt.alloc(), Asked::Workers, TWO_SEGMENTS)
}

/// Links in groups behind the prelude's, mostly with lists for which many units ask: how many sections are live and how many symbols have
/// lines, whether two and eight workers make the report that none makes, and whether any worker walks.
const SHARED: &str = r#"
@ {"plan":{"page":16,"sections":[{"attrs":1,"parts":[[1,false]]}],"segments":[{"kind":"load"}],"events":[["seg",0],["sec",0],["endseg",0]]},"groups":[[{"kind":"prelude"}],...]}
# Symbols, of which two workers make the lines of two and three, and the last of eight those of all.
[{"kind":"object","symbols":[«5 of {"at":["sec",0,1]}»],"sections":[{"slot":"must","size":4,"relocs":[[0,"Absolute",0,0,false],[0,"Absolute",1,0,false],[0,"Absolute",2,0,false],[0,"Absolute",3,0,false],[0,"Absolute",4,0,false]]}]}] => live 1 symbols 5 alike true walk true
# The members of a section group, of which one is kept in any case; a section outside stays out.
[{"kind":"object","sections":[{"slot":"must","size":1,"group":7},«63 of {"slot":"unloaded","size":1,"group":7}»,{"slot":"unloaded","size":1}]}] => live 64 symbols 0 alike true walk true
[{"kind":"object","sections":[{"slot":"must","size":1,"group":7},«64 of {"slot":"unloaded","size":1,"group":7}»,{"slot":"unloaded","size":1}]}] => live 65 symbols 0 alike true walk false
# The candidates of an output section, for which symbols at its start ask.
[{"kind":"object","sections":[{"slot":"unloaded","size":1}]},{"kind":"synthetic","symbols":[«64 of {"at":["start",0]}»],"candidates":[«65 of [0,1,0,0]»]},{"kind":"object","symbols":[{"at":["undef"],"def":0},{"at":["undef"],"def":63}],"sections":[{"slot":"must","size":4,"relocs":[[0,"Absolute",0,0,false],[1,"Absolute",1,0,false]]}]}] => live 2 symbols 0 alike true walk true
[{"kind":"object","sections":[{"slot":"unloaded","size":1}]},{"kind":"synthetic","symbols":[«65 of {"at":["start",0]}»],"candidates":[«64 of [0,1,0,0]»]},{"kind":"object","symbols":[{"at":["undef"],"def":0},{"at":["undef"],"def":64}],"sections":[{"slot":"must","size":4,"relocs":[[0,"Absolute",0,0,false],[1,"Absolute",1,0,false]]}]}] => live 2 symbols 0 alike true walk true
[{"kind":"object","sections":[{"slot":"unloaded","size":1}]},{"kind":"synthetic","symbols":[«65 of {"at":["start",0]}»],"candidates":[«65 of [0,1,0,0]»]},{"kind":"object","symbols":[{"at":["undef"],"def":0},{"at":["undef"],"def":64}],"sections":[{"slot":"must","size":4,"relocs":[[0,"Absolute",0,0,false],[1,"Absolute",1,0,false]]}]}] => live 2 symbols 0 alike true walk false
# Scripts, each of which asks for what the location counter's expressions refer to.
[{"kind":"object","sections":[{"slot":"must","size":1}]}],[«64 of {"kind":"script"}»] => live 1 symbols 0 alike true walk true
[{"kind":"object","sections":[{"slot":"must","size":1}]}],[«65 of {"kind":"script"}»] => live 1 symbols 0 alike true walk false
"#;

/// A gate that counts who enters it.
#[derive(Drop)]
struct Counter {
    entered: AtomicU64,
}

impl Gate for Counter {
    fn enter(&self, _group: u32) {
        self.entered.fetch_add(1, Ordering::SeqCst);
    }
}

/// Adds how many sections and symbols a report has, and what becomes of it by workers.
pub fn add_shared(
    rt: &(impl Threads + Wait + Sync),
    alloc: Global,
    line: &mut String,
    link: &LinkInput,
) -> Result<(), AllocError> {
    let gate = Counter {
        entered: AtomicU64::new(0),
    };
    let alone = told_layout(rt, alloc, link, 0, &gate)?;
    let by_two = told_layout(rt, alloc, link, 2, &gate)?;
    let by_eight = told_layout(rt, alloc, link, 8, &gate)?;
    let alone = alone.as_str();
    add(line, "live", &alone.matches("\nlive ").count())?;
    add(line, "symbols", &alone.matches("\nsymbol ").count())?;
    let is_same = by_two.as_str() == alone && by_eight.as_str() == alone;
    add(line, "alike", &is_same)?;
    add(line, "walk", &(gate.entered.load(Ordering::SeqCst) > 0))
}

#[test]
fn long_lists_change_no_report(rt: HostRuntime) -> Result<(), Fail> {
    expect_rows(&rt, rt.alloc(), Asked::Shared, SHARED)
}
