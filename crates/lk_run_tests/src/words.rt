//! Words, statuses, and runs whose words or input are no good.

use crate::ends::words_of;
use crate::rows::{Asked, expect_rows};
use crate::runs::{expect_text, told, told_by_workers};
use lk_run::{Status, SureSink, SureSource, run_alone};
use lk_test_rows::add;
use std::alloc::{AllocError, Global};
use std::sync::Wait;
use std::test::Fail;
use std::thread::Threads;

#[test]
fn statuses_have_their_numbers(rt: HostRuntime) -> Result<(), Fail> {
    let mut line = String::new(rt.alloc());
    for status in [
        Status::Done,
        Status::Refused,
        Status::Usage,
        Status::Unreadable,
        Status::ReadFault,
        Status::WriteFault,
        Status::NoMemory,
    ] {
        add(&mut line, "status", &(status, status.code()))?;
    }
    expect_text(
        &rt,
        line.as_str(),
        "status (Done, 0) status (Refused, 1) status (Usage, 2) status (Unreadable, 3) \
        status (ReadFault, 4) status (WriteFault, 5) status (NoMemory, 6)",
    );
    Ok(())
}

/// Lines of words; of these only the first and the last seven are commands.
const WORDS: &str = r#"
layout 0 => command Some(Layout(0)) ends "3 not a link description: /plan"
layout 07 => command None ends "2 usage: lk_program layout N | gen SEED SIZE | why G F I | check | image N"
layout 00 => command None ends "2 usage: lk_program layout N | gen SEED SIZE | why G F I | check | image N"
layout 064 => command None ends "2 usage: lk_program layout N | gen SEED SIZE | why G F I | check | image N"
layout +1 => command None ends "2 usage: lk_program layout N | gen SEED SIZE | why G F I | check | image N"
layout -1 => command None ends "2 usage: lk_program layout N | gen SEED SIZE | why G F I | check | image N"
layout 65 => command None ends "2 usage: lk_program layout N | gen SEED SIZE | why G F I | check | image N"
layout 100 => command None ends "2 usage: lk_program layout N | gen SEED SIZE | why G F I | check | image N"
layout 256 => command None ends "2 usage: lk_program layout N | gen SEED SIZE | why G F I | check | image N"
layout => command None ends "2 usage: lk_program layout N | gen SEED SIZE | why G F I | check | image N"
layout 0 0 => command None ends "2 usage: lk_program layout N | gen SEED SIZE | why G F I | check | image N"
Layout 0 => command None ends "2 usage: lk_program layout N | gen SEED SIZE | why G F I | check | image N"
gen => command None ends "2 usage: lk_program layout N | gen SEED SIZE | why G F I | check | image N"
gen 1 => command None ends "2 usage: lk_program layout N | gen SEED SIZE | why G F I | check | image N"
gen 0 0 => command None ends "2 usage: lk_program layout N | gen SEED SIZE | why G F I | check | image N"
gen 01 1 => command None ends "2 usage: lk_program layout N | gen SEED SIZE | why G F I | check | image N"
gen 1 01 => command None ends "2 usage: lk_program layout N | gen SEED SIZE | why G F I | check | image N"
gen +1 1 => command None ends "2 usage: lk_program layout N | gen SEED SIZE | why G F I | check | image N"
gen 1 -1 => command None ends "2 usage: lk_program layout N | gen SEED SIZE | why G F I | check | image N"
gen 0 100001 => command None ends "2 usage: lk_program layout N | gen SEED SIZE | why G F I | check | image N"
gen 0 4294967297 => command None ends "2 usage: lk_program layout N | gen SEED SIZE | why G F I | check | image N"
gen 18446744073709551616 1 => command None ends "2 usage: lk_program layout N | gen SEED SIZE | why G F I | check | image N"
gen 1 1 1 => command None ends "2 usage: lk_program layout N | gen SEED SIZE | why G F I | check | image N"
Gen 1 1 => command None ends "2 usage: lk_program layout N | gen SEED SIZE | why G F I | check | image N"
layout 1 1 => command None ends "2 usage: lk_program layout N | gen SEED SIZE | why G F I | check | image N"
 => command None ends "2 usage: lk_program layout N | gen SEED SIZE | why G F I | check | image N"
why => command None ends "2 usage: lk_program layout N | gen SEED SIZE | why G F I | check | image N"
why 1 0 => command None ends "2 usage: lk_program layout N | gen SEED SIZE | why G F I | check | image N"
why 01 0 0 => command None ends "2 usage: lk_program layout N | gen SEED SIZE | why G F I | check | image N"
why 1 +0 0 => command None ends "2 usage: lk_program layout N | gen SEED SIZE | why G F I | check | image N"
why 1 0 -1 => command None ends "2 usage: lk_program layout N | gen SEED SIZE | why G F I | check | image N"
why 4294967296 0 0 => command None ends "2 usage: lk_program layout N | gen SEED SIZE | why G F I | check | image N"
why 0 4294967296 0 => command None ends "2 usage: lk_program layout N | gen SEED SIZE | why G F I | check | image N"
why 0 0 4294967296 => command None ends "2 usage: lk_program layout N | gen SEED SIZE | why G F I | check | image N"
why 0 0 18446744073709551616 => command None ends "2 usage: lk_program layout N | gen SEED SIZE | why G F I | check | image N"
why 1 0 0 0 => command None ends "2 usage: lk_program layout N | gen SEED SIZE | why G F I | check | image N"
Why 1 0 0 => command None ends "2 usage: lk_program layout N | gen SEED SIZE | why G F I | check | image N"
check 0 => command None ends "2 usage: lk_program layout N | gen SEED SIZE | why G F I | check | image N"
Check => command None ends "2 usage: lk_program layout N | gen SEED SIZE | why G F I | check | image N"
check check => command None ends "2 usage: lk_program layout N | gen SEED SIZE | why G F I | check | image N"
image => command None ends "2 usage: lk_program layout N | gen SEED SIZE | why G F I | check | image N"
image 01 => command None ends "2 usage: lk_program layout N | gen SEED SIZE | why G F I | check | image N"
image 65 => command None ends "2 usage: lk_program layout N | gen SEED SIZE | why G F I | check | image N"
image 0 0 => command None ends "2 usage: lk_program layout N | gen SEED SIZE | why G F I | check | image N"
Image 0 => command None ends "2 usage: lk_program layout N | gen SEED SIZE | why G F I | check | image N"
layout 0 gen => command None ends "2 usage: lk_program layout N | gen SEED SIZE | why G F I | check | image N"
gen 1 1 => command Some(Gen { seed: 1, size: 1 }) ends "0 gen 1 1 live 2 of 2 merged 5 end 0x4000b8"
gen 18446744073709551615 3 => command Some(Gen { seed: 18446744073709551615, size: 3 }) ends "0 gen 18446744073709551615 3 live 2 of 6 merged 15 end 0x4000c0"
why 1 0 2 => command Some(Why { file: FileId { group: 1, file: 0 }, index: 2 }) ends "3 not a link description: /plan"
why 4294967295 4294967295 4294967295 => command Some(Why { file: FileId { group: 4294967295, file: 4294967295 }, index: 4294967295 }) ends "3 not a link description: /plan"
check => command Some(Check) ends "3 not a map: line 1"
image 0 => command Some(Image(0)) ends "3 not a link description: /plan"
image 64 => command Some(Image(64)) ends "no end"
"#;

#[test]
fn other_words_are_no_command(rt: HostRuntime) -> Result<(), Fail> {
    expect_rows(&rt, rt.alloc(), Asked::Words, WORDS)
}

/// The smallest description.
const SMALLEST: &str = r#"{"plan":{"page":4096},"groups":[[{"kind":"prelude"}]]}"#;

/// How many workers are asked for, or what link, and how a run over the smallest description ends: on the caller's own thread, with the
/// bytes that its source has left and its sink took; and by workers.
const WORKERS: &str = r#"
layout 0 => alone (Some(Done), 0, 19) workers "0 layout\nentry -\nend"
layout 1 => alone (Some(Done), 0, 19) workers "0 layout\nentry -\nend"
layout 2 => alone (None, 54, 0) workers "0 layout\nentry -\nend"
layout 10 => alone (None, 54, 0) workers "0 layout\nentry -\nend"
layout 64 => alone (None, 54, 0) workers "0 layout\nentry -\nend"
gen 0 1 => alone (Some(Done), 54, 42) workers "0 gen 0 1 live 2 of 2 merged 5 end 0x400058"
image 0 => alone (Some(Done), 0, 0) workers "0 no line"
image 1 => alone (Some(Done), 0, 0) workers "0 no line"
image 2 => alone (None, 54, 0) workers "0 no line"
image 64 => alone (None, 54, 0) workers "0 no line"
"#;

/// Adds how a run on the caller's own thread ends.
fn add_alone(alloc: Global, line: &mut String, words: &[String]) -> Result<(), AllocError> {
    let mut source = SureSource::new(SMALLEST.as_bytes().to_vec(alloc)?);
    let mut sink = SureSink::new();
    let status = run_alone(alloc, words, &mut source, &mut sink);
    add(line, "alone", &(status, source.left().len(), sink.count()))
}

/// Adds how runs with the words of a row end.
pub fn add_both_runs(
    rt: &(impl Threads + Wait + Sync),
    alloc: Global,
    line: &mut String,
    row: &str,
) -> Result<(), AllocError> {
    let words = words_of(alloc, row)?;
    add_alone(alloc, line, &words)?;
    add(
        line,
        "workers",
        &told_by_workers(rt, alloc, &words, SMALLEST)?,
    )
}

#[test]
fn the_number_of_workers_changes_nothing(rt: HostRuntime) -> Result<(), Fail> {
    expect_rows(&rt, rt.alloc(), Asked::BothRuns, WORKERS)
}

/// Two groups of a hundred units each, of which two workers take one in turn.
const LOCK_STEP: &str = r#"
{"plan":{"page":16,"sections":[{"attrs":1,"parts":[[1,false]]}],"events":[["sec",0]]},"groups":[[{"kind":"prelude"}],[{"kind":"object","sections":[«100 of {"slot":"must"}»]}],[{"kind":"object","sections":[«100 of {"slot":"must"}»]}]]} => alike true in step true
"#;

#[test]
fn two_workers_run_in_lock_step(rt: HostRuntime) -> Result<(), Fail> {
    expect_rows(&rt, rt.alloc(), Asked::LockStep, LOCK_STEP)
}

/// Adds how a run with the words of a row ends, whose source is empty.
pub fn add_generated(alloc: Global, line: &mut String, row: &str) -> Result<(), AllocError> {
    line.push_str(told(alloc, &words_of(alloc, row)?, "")?.as_str())
}

/// Words of generated links, and the lines that are told of these.
const GENERATED: &str = r#"
gen 0 1 => 0 gen 0 1 live 2 of 2 merged 5 end 0x400058
gen 0 9 => 0 gen 0 9 live 6 of 18 merged 40 end 0x4001f0
gen 0 200 => 0 gen 0 200 live 30 of 400 merged 130 end 0x400d18
gen 1 1 => 0 gen 1 1 live 2 of 2 merged 5 end 0x4000b8
gen 1 9 => 0 gen 1 9 live 2 of 18 merged 43 end 0x400110
gen 1 200 => 0 gen 1 200 live 24 of 400 merged 130 end 0x400800
gen 2 1 => 0 gen 2 1 live 2 of 2 merged 5 end 0x400138
gen 2 9 => 0 gen 2 9 live 7 of 18 merged 32 end 0x400300
gen 2 200 => 0 gen 2 200 live 22 of 400 merged 130 end 0x400990
gen 3 1 => 0 gen 3 1 live 2 of 2 merged 5 end 0x400100
gen 3 9 => 0 gen 3 9 live 7 of 18 merged 40 end 0x400418
gen 3 200 => 0 gen 3 200 live 22 of 400 merged 130 end 0x400940
gen 4 1 => 0 gen 4 1 live 2 of 2 merged 5 end 0x400058
gen 4 9 => 0 gen 4 9 live 8 of 18 merged 37 end 0x400340
gen 4 200 => 0 gen 4 200 live 21 of 400 merged 130 end 0x400850
gen 5 1 => 0 gen 5 1 live 2 of 2 merged 5 end 0x4000c8
gen 5 9 => 0 gen 5 9 live 6 of 18 merged 45 end 0x400290
gen 5 200 => 0 gen 5 200 live 12 of 400 merged 130 end 0x400620
gen 6 1 => 0 gen 6 1 live 2 of 2 merged 5 end 0x4000a0
gen 6 9 => 0 gen 6 9 live 7 of 18 merged 37 end 0x4002b0
gen 6 200 => 0 gen 6 200 live 14 of 400 merged 130 end 0x4004f0
gen 7 1 => 0 gen 7 1 live 2 of 2 merged 5 end 0x4000e8
gen 7 9 => 0 gen 7 9 live 7 of 18 merged 43 end 0x400328
gen 7 200 => 0 gen 7 200 live 10 of 400 merged 130 end 0x4003a8
gen 8 1 => 0 gen 8 1 live 2 of 2 merged 5 end 0x400040
gen 8 9 => 0 gen 8 9 live 4 of 18 merged 37 end 0x400140
gen 8 200 => 0 gen 8 200 live 20 of 400 merged 130 end 0x400738
gen 9 1 => 0 gen 9 1 live 2 of 2 merged 5 end 0x400100
gen 9 9 => 0 gen 9 9 live 12 of 18 merged 36 end 0x400568
gen 9 200 => 0 gen 9 200 live 30 of 400 merged 130 end 0x400c30
gen 10 1 => 0 gen 10 1 live 2 of 2 merged 5 end 0x400090
gen 10 9 => 0 gen 10 9 live 7 of 18 merged 40 end 0x400318
gen 10 200 => 0 gen 10 200 live 8 of 400 merged 130 end 0x400360
gen 11 1 => 0 gen 11 1 live 2 of 2 merged 5 end 0x4000d8
gen 11 9 => 0 gen 11 9 live 8 of 18 merged 43 end 0x400328
gen 11 200 => 0 gen 11 200 live 35 of 400 merged 130 end 0x400ea0
gen 12 1 => 0 gen 12 1 live 2 of 2 merged 5 end 0x4000a0
gen 12 9 => 0 gen 12 9 live 2 of 18 merged 45 end 0x4000c8
gen 12 200 => 0 gen 12 200 live 4 of 400 merged 130 end 0x4001b0
gen 13 1 => 0 gen 13 1 live 2 of 2 merged 5 end 0x4000e8
gen 13 9 => 0 gen 13 9 live 11 of 18 merged 36 end 0x400470
gen 13 200 => 0 gen 13 200 live 47 of 400 merged 130 end 0x401248
gen 14 1 => 0 gen 14 1 live 2 of 2 merged 5 end 0x400078
gen 14 9 => 0 gen 14 9 live 6 of 18 merged 40 end 0x400188
gen 14 200 => 0 gen 14 200 live 31 of 400 merged 130 end 0x400c10
gen 15 1 => 0 gen 15 1 live 2 of 2 merged 5 end 0x400130
gen 15 9 => 0 gen 15 9 live 12 of 18 merged 40 end 0x400678
gen 15 200 => 0 gen 15 200 live 44 of 400 merged 130 end 0x401100
"#;

#[test]
fn generated_links_are_laid_out(rt: HostRuntime) -> Result<(), Fail> {
    expect_rows(&rt, rt.alloc(), Asked::Generated, GENERATED)
}

/// Inputs that can't be read, and how runs over them end.
const UNREADABLE: &str = r#"
{"plan":{"page":4096},"groups":[[{"kind":"prelude"}]] => 3 not JSON
# The example of the README without its last brace.
{ "plan": { "page": 4096, "base": ["num", 4096], "sections": [ { "name": "A", "attrs": 1, "parts": [[8, false]] }, { "name": "B", "attrs": 1, "parts": [[1, false]] }, { "name": "C", "attrs": 17, "parts": [[16, false]] } ], "segments": [{ "kind": "load" }], "events": [["seg", 0], ["sec", 0], ["sec", 1], ["sec", 2], ["endseg", 0]] }, "groups": [ [{ "kind": "prelude" }], [ { "kind": "object", "name": "a.o", "sections": [ { "slot": "must", "part": 0, "size": 8 }, { "slot": "must", "part": 1, "size": 7 }, { "slot": "must", "part": 2, "size": 16 } ] } ] ] => 3 not JSON
 => 3 not JSON
[] => 3 not a link description: 
{"plan":{}} => 3 not a link description: /plan/page
"#;

#[test]
fn inputs_that_cannot_be_read_are_told(rt: HostRuntime) -> Result<(), Fail> {
    expect_rows(&rt, rt.alloc(), Asked::Run, UNREADABLE)
}
