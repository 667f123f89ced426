//! Files in the traversal: what each is called, what its symbols load, and what it exports; and what any number of workers finds.

ghost use Rattle.std.specs.Prelude.{◌≡◌, Some, true};
ghost use Rattle.lk_link.specs.SymbolRanges.{IsWithin};
ghost use Rattle.lk_link.specs.Symbols.{definition_of};
ghost use Rattle.lk_link.specs.WellFormed.{IsWellFormed};

use crate::rows::{Asked, expect_rows};
use crate::traversal::OfTraversal;
use lk_check::check_link;
use lk_gc::{
    EpilogueLayoutState, ExportSymbolsMode, FileLayoutState, GcError, GroupState, Live,
    LocalWorkQueue, SymbolRequestHandler, can_export_global_def, export_symbols_mode, traverse,
};
use lk_link::{FileId, InputSymbol, LinkInput, NoGate, SymbolId};
use lk_test_rows::add;
use std::alloc::{AllocError, Global};
use std::sync::Wait;
use std::test::Fail;
use std::thread::Threads;

/// What each file and each group is called, and what waits once each symbol of a file that stands for itself is loaded: of the prelude and of
/// dynamic files nothing, of an object the section, of a script a redirect's symbols and what is exported, of a synthetic file
/// the candidates. Files that aren't loaded, and the epilogue, load nothing.
const LOADS: &str = r#"
@ {"plan":{"page":16,"sections":[{"attrs":1,"parts":[[1,false]]},{"attrs":1,"parts":[[1,false]]}],"events":[["sec",0],["sec",1]]},"groups":[[{"kind":"prelude","symbols":[{"at":["redirect",["sym",1],["none"],false],"name":"p"}]}],[...]]}
{"kind":"object","name":"a.o","symbols":[{"at":["sec",1,0]},{"at":["undef"],"def":1},{"at":["common",0,4]},{"at":["abs",7]}],"sections":[{"slot":"unloaded"},{"slot":"unloaded","size":4}]} => <prelude> loads [] a.o (1.0) loads [LoadGcUnit(GcLoadRequest { file_id: FileId { group: 1, file: 0 }, gc_unit: SectionGcUnit { index: 1 } })] loads [] loads [] <epilogue> group <prelude> group a.o (1.0)
{"kind":"notloaded","name":"n"},{"kind":"dynamic","name":"c.so","symbols":[{"at":["dyn"],"name":"f"},{"at":["undef"],"def":1}]} => <prelude> loads [] <not-loaded> c.so (1.1) loads [] <epilogue> group <prelude> group Group with 2 files. Rerun with WILD_FILES_PER_GROUP=1
{"kind":"script","name":"s.ld","symbols":[{"at":["redirect",["add",["sym",2],["sym",4]],["start",0],true],"name":"r"},{"at":["start",0],"name":"e"},{"at":["redirect",["sym",3],["end",1],false],"name":"h","hidden":true},{"at":["end",0]},{"at":["undefined"],"name":"u"}]} => <prelude> loads [] s.ld loads [LoadGlobalSymbol(SymbolId { number: 1 }), LoadGlobalSymbol(SymbolId { number: 2 }), LoadGlobalSymbol(SymbolId { number: 4 }), ExportDynamic(SymbolId { number: 1 })] loads [ExportDynamic(SymbolId { number: 2 })] loads [LoadGlobalSymbol(SymbolId { number: 3 }), LoadGlobalSymbol(SymbolId { number: 3 })] loads [] loads [ExportDynamic(SymbolId { number: 5 })] <epilogue> group <prelude> group s.ld
{"kind":"synthetic","name":"x","symbols":[{"at":["start",0]},{"at":["end",1]},{"at":["groupend",0]},{"at":["tlsend"]},{"at":["start",1],"def":1}],"candidates":[[0,1,1,0],[1,1,1,1],[0,1,1,1]]},{"kind":"object","name":"b.o","sections":[{"slot":"unloaded"},{"slot":"must"}]} => <prelude> loads [] <synthetic> loads [LoadGcUnit(GcLoadRequest { file_id: FileId { group: 1, file: 1 }, gc_unit: SectionGcUnit { index: 0 } }), LoadGcUnit(GcLoadRequest { file_id: FileId { group: 1, file: 1 }, gc_unit: SectionGcUnit { index: 1 } })] loads [LoadGcUnit(GcLoadRequest { file_id: FileId { group: 1, file: 1 }, gc_unit: SectionGcUnit { index: 1 } })] loads [LoadGcUnit(GcLoadRequest { file_id: FileId { group: 1, file: 1 }, gc_unit: SectionGcUnit { index: 0 } }), LoadGcUnit(GcLoadRequest { file_id: FileId { group: 1, file: 1 }, gc_unit: SectionGcUnit { index: 1 } })] loads [] b.o (1.1) <epilogue> group <prelude> group Group with 2 files. Rerun with WILD_FILES_PER_GROUP=1
@ {"plan":{"page":16},"groups":[[{"kind":"prelude"}],[...]]}
{"kind":"notloaded","name":"n"} => <prelude> <not-loaded> <epilogue> group <prelude> group <not-loaded>
{"kind":"dynamic","name":"c.so"} => <prelude> c.so (1.0) <epilogue> group <prelude> group c.so (1.0)
{"kind":"synthetic","name":"x"} => <prelude> <synthetic> <epilogue> group <prelude> group <synthetic>
@ {"plan":{"page":16},"groups":[[{"kind":"prelude"}],[]],"options":{...}}
"output":"static" => <prelude> <epilogue> group <prelude> group Group with 0 files. Rerun with WILD_FILES_PER_GROUP=1
"#;

/// In which mode each of three files exports: the prelude, a file that is out of no archive, and one out of an archive, its
/// symbols exported all the same in the second row; and which symbols can be exported by the list and where all are.
const EXPORTS: &str = r#"
@ {"plan":{"page":16},"groups":[[{"kind":"prelude"},{"kind":"object","symbols":[{"at":["abs",0],"name":"g"},{"at":["abs",0],"name":"h","hidden":true},{"at":["abs",0],"name":"l","local":true},{"at":["abs",0],"name":"w","weak":true},{"at":["abs",0],"name":"d","flags":8},{"at":["undef"],"name":"u"},{"at":["undef"],"name":"c","def":0},{"at":["abs",0],"name":"o"}]},{"kind":"object","archive":true}]],"options":{...}}
"output":"static" | "output":"static","export_all":true | "output":"partial" | "output":"dynamic" => modes None None None g list all h l w list all d u c o list all
"output":"shared" => modes Some(All) Some(All) None g list all h l w list all d u c o list all
"output":"dynamic","export_all":true | "output":"shared","export_all":true => modes Some(All) Some(All) Some(All) g list all h l w list all d u c o list all
"output":"dynamic","export_list":["g","h","l","w","d","u","c"] => modes Some(MatchingExportList) Some(MatchingExportList) Some(MatchingExportList) g list all h l w list all d u c o all
"output":"shared","export_list":["g","h","l","w","d","u","c"] => modes Some(All) Some(All) Some(MatchingExportList) g list all h l w list all d u c o all
"output":"shared","export_list":["g","h","l","w","d","u","c"],"restrictive":true => modes Some(All) Some(All) Some(MatchingExportList) g list all h l w list all d u c o
"output":"dynamic","export_list":[],"export_all":true => modes Some(All) Some(All) Some(All) g all h l w all d u c o all
"output":"dynamic","export_list":[],"restrictive":true => modes Some(MatchingExportList) Some(MatchingExportList) Some(MatchingExportList) g h l w d u c o
"output":"static","export_list":["g"],"restrictive":true => modes None None None g list all h l w d u c o
@ {"plan":{"page":16},"groups":[[{"kind":"prelude"},{"kind":"object","archive":true,"export":true,"symbols":[{"at":["abs",0],"name":"g"}]},{"kind":"dynamic","archive":true,"export":true}]],"options":{...}}
"output":"shared" => modes Some(All) Some(All) Some(All) g list all
"output":"dynamic" => modes None None None g list all
"#;

/// What is live, the flags of symbols, and the output sections that are kept without bytes, or the references that can't be met:
/// one answer, whether no, one, two, eight or 64 workers look.
const TRAVERSALS: &str = r#"
@ {"plan":{"page":16,"sections":[{"attrs":1,"parts":[[4,false],[1,false]]},{"attrs":1,"parts":[[1,false]]},{"attrs":1,"parts":[[1,false]]}],"events":[["sec",0],["sec",1],["sec",2]]},"groups":[[{"kind":"prelude"}],[...]],"options":{"entry":0}}
# Sections without bytes keep theirs, by whatever part, if they are live; debug data and those with bytes don't.
{"kind":"object","symbols":[{"at":["sec",0,0]}],"sections":[{"slot":"unloaded","part":1},{"slot":"unloaded","part":2},{"slot":"mustdebug","part":2},{"slot":"must","size":1,"part":3}]} => live [true, false, true, true] flags [64] kept [true, false, false]
{"kind":"object","symbols":[{"at":["sec",0,0]}],"sections":[{"slot":"unloaded","part":0,"group":3},{"slot":"unloaded","part":2,"group":3},{"slot":"debug","part":3,"group":3}]} => live [true, true, true] flags [64] kept [true, true, false]
{"kind":"object","symbols":[{"at":["sec",0,0]}],"sections":[{"slot":"must","size":1,"group":8}]} => live [true] flags [64] kept [false, false, false]
# A redirect of a script keeps the one at whose start or end it stands, if it is reached; others don't, nor do those of the prelude.
{"kind":"script","symbols":[{"at":["redirect",["num",1],["start",1],true],"name":"p"},{"at":["redirect",["num",1],["end",0],true],"name":"q"},{"at":["redirect",["num",1],["end",2],false],"hidden":true},{"at":["start",0]}]} => live [] flags [8256, 0, 64, 0] kept [false, true, true]
{"kind":"script","symbols":[{"at":["redirect",["sym",0],["none"],true]},{"at":["redirect",["num",1],["counter",0],false]}]},{"kind":"synthetic","symbols":[{"at":["redirect",["num",1],["start",0],false]}]},{"kind":"object","symbols":[{"at":["undef"],"def":2}],"sections":[{"slot":"must","size":1,"relocs":[[0,"Absolute",0,0,false]]}]} => live [true] flags [64, 64, 64, 0] kept [false, false, false]
# Faults.
{"kind":"object","symbols":[{"at":["sec",0,0]},{"at":["undef"]}],"sections":[{"slot":"discard"},{"slot":"must","size":4,"relocs":[[0,"Absolute",1,0,false],[0,"None",1,0,false],[1,"Relative",1,0,false]]}]},{"kind":"dynamic","check":true,"symbols":[{"at":["undef"]},{"at":["undef"],"weak":true}]} => faults [Discarded(FileId { group: 1, file: 0 }, 0), Undefined(SymbolId { number: 1 }, FileId { group: 1, file: 0 }, 1, 0), Undefined(SymbolId { number: 1 }, FileId { group: 1, file: 0 }, 1, 2), UndefinedDynamic(SymbolId { number: 2 }, FileId { group: 1, file: 1 })]
# The same in several groups, one of which only another reaches.
{"kind":"object","symbols":[{"at":["sec",0,0]},{"at":["undef"]}],"sections":[{"slot":"discard"},{"slot":"must","size":4,"relocs":[[0,"Absolute",1,0,false]]}]}],[{"kind":"object","symbols":[{"at":["undef"]},{"at":["undef"],"def":6}],"sections":[{"slot":"must","size":8,"relocs":[[0,"Absolute",1,0,false],[4,"Absolute",0,0,false]]}]}],[{"kind":"dynamic","check":true,"symbols":[{"at":["undef"]},{"at":["undef"],"weak":true}]}],[{"kind":"object","symbols":[{"at":["sec",0,0]},{"at":["undef"]},{"at":["sec",1,0]}],"sections":[{"slot":"unloaded","size":4,"relocs":[[0,"Relative",1,0,false],[0,"Absolute",2,0,false]]},{"slot":"discard"}]} => faults [Discarded(FileId { group: 1, file: 0 }, 0), Undefined(SymbolId { number: 1 }, FileId { group: 1, file: 0 }, 1, 0), Undefined(SymbolId { number: 2 }, FileId { group: 2, file: 0 }, 0, 1), UndefinedDynamic(SymbolId { number: 4 }, FileId { group: 3, file: 0 }), Undefined(SymbolId { number: 7 }, FileId { group: 4, file: 0 }, 0, 0), Discarded(FileId { group: 4, file: 0 }, 1)]
"#;

/// Whether a symbol stands for itself.
fn stands_for_itself(link: &LinkInput, symbol: SymbolId) -> bool
    requires { IsWellFormed link.now }
    ensures { result ≡ true → definition_of link.now.groups symbol ≡ Some symbol }
{
    match link.groups.definition(symbol) {
        Some(definition) => definition.as_u32() == symbol.as_u32(),
        None => false,
    }
}

/// Adds what waits once a symbol of a file is loaded, if it stands for itself.
fn add_load<S: SymbolRequestHandler>(
    alloc: Global,
    line: &mut String,
    link: &LinkInput,
    state: &S,
    symbol: SymbolId,
) -> Result<(), AllocError>
    requires well_formed { IsWellFormed link.now }
    requires own { IsWithin (S.symbols state.now) symbol }
{
    if stands_for_itself(link, symbol) {
        let mut queue = LocalWorkQueue::new(alloc);
        state.load_symbol(symbol, link, &mut queue)?;
        add(line, "loads", &queue.as_slice())?;
    }
    Ok(())
}

/// Adds what waits once the symbols of a file are loaded.
fn add_loads<S: SymbolRequestHandler>(
    alloc: Global,
    line: &mut String,
    link: &LinkInput,
    state: &S,
) -> Result<(), AllocError>
    requires { IsWellFormed link.now }
{
    let range = state.symbol_id_range();
    for place in 0..range.len() {
        let symbol = range.offset_to_id(place);
        if range.contains(symbol) {
            add_load(alloc, line, link, state, symbol)?;
        }
    }
    Ok(())
}

/// Adds what a file is called, and what its symbols load.
fn add_state(
    alloc: Global,
    line: &mut String,
    link: &LinkInput,
    state: &FileLayoutState<'_>,
) -> Result<(), AllocError>
    requires { IsWellFormed link.now }
{
    if !line.is_empty() {
        line.push(' ')?;
    }
    write!(line, "{state}")?;
    match state {
        FileLayoutState::Prelude(state) => add_loads(alloc, line, link, state),
        FileLayoutState::Object(state) => add_loads(alloc, line, link, state),
        FileLayoutState::Dynamic(state) => add_loads(alloc, line, link, state),
        FileLayoutState::SyntheticSymbols(state) => add_loads(alloc, line, link, state),
        FileLayoutState::LinkerScript(state) => add_loads(alloc, line, link, state),
        FileLayoutState::Epilogue(_) | FileLayoutState::NotLoaded => Ok(()),
    }
}

/// Adds the same of a file by its number, if there is one.
fn add_file(
    alloc: Global,
    line: &mut String,
    link: &LinkInput,
    group: u32,
    file: u32,
) -> Result<(), AllocError>
    requires { IsWellFormed link.now }
{
    match FileLayoutState::of_file(link, FileId { group, file }) {
        Some(state) => add_state(alloc, line, link, &state),
        None => Ok(()),
    }
}

/// Adds what a group is called.
fn add_group_name(line: &mut String, link: &LinkInput, group: u32) -> Result<(), AllocError> {
    match GroupState::of_group(link, group) {
        Some(state) => write!(line, " group {state}"),
        None => Ok(()),
    }
}

/// Adds the same of the first files of two groups of a link that is well formed, behind them the epilogue, and what the groups are called.
pub fn add_states(alloc: Global, line: &mut String, link: &LinkInput) -> Result<(), AllocError> {
    if check_link(link).is_err() {
        return Ok(());
    }
    for group in 0..2 {
        for file in 0..3 {
            add_file(alloc, line, link, group, file)?;
        }
    }
    let behind = FileLayoutState::Epilogue(EpilogueLayoutState {});
    write!(line, " {behind}")?;
    for group in 0..3 {
        add_group_name(line, link, group)?;
    }
    Ok(())
}

/// Adds the name of a symbol, and in which modes it can be exported.
fn add_export(
    line: &mut String,
    link: &LinkInput,
    symbol: SymbolId,
    own: &InputSymbol,
) -> Result<(), AllocError> {
    line.push(' ')?;
    line.push_str(own.name.as_str())?;
    if can_export_global_def(
        link,
        symbol,
        own.flags,
        ExportSymbolsMode::MatchingExportList,
    ) {
        line.push_str(" list")?;
    }
    if can_export_global_def(link, symbol, own.flags, ExportSymbolsMode::All) {
        line.push_str(" all")?;
    }
    Ok(())
}

/// Adds in which mode three files of the first group export, and which of the first symbols can be exported.
pub fn add_exports(line: &mut String, link: &LinkInput) -> Result<(), AllocError> {
    line.push_str("modes")?;
    for file in 0..3 {
        let mode = export_symbols_mode(link, FileId { group: 0, file });
        write!(line, " {mode:?}")?;
    }
    for number in 0..8 {
        let symbol = SymbolId::from_u32(number);
        if let Some(own) = link.groups.symbol(symbol) {
            add_export(line, link, symbol, own)?;
        }
    }
    Ok(())
}

/// Adds what is live, with its flags and the output sections that it keeps.
fn add_live(line: &mut String, live: &Live) -> Result<(), AllocError> {
    add(line, "live", &live.marks.as_slice())?;
    line.push_str(" flags [")?;
    let mut between = "";
    for flags in live.flags.as_slice() {
        let word = flags.0;
        write!(line, "{between}{word}")?;
        between = ", ";
    }
    line.push(']')?;
    add(line, "kept", &live.kept.as_slice())
}

/// Adds what so many workers find.
fn add_found(
    rt: &(impl Threads + Wait + Sync),
    alloc: Global,
    line: &mut String,
    link: &LinkInput,
    workers: u32,
) -> Result<(), AllocError>
    requires { IsWellFormed link.now }
{
    match traverse(rt, alloc, link, workers, &NoGate) {
        Ok(live) => add_live(line, &live),
        Err(GcError::References(faults)) => add(line, "faults", &faults.as_slice()),
        Err(GcError::NoMemory) => Err(AllocError),
    }
}

/// Adds what so many workers find, where that is something else.
fn add_other(
    rt: &(impl Threads + Wait + Sync),
    alloc: Global,
    line: &mut String,
    link: &LinkInput,
    workers: u32,
) -> Result<(), AllocError>
    requires { IsWellFormed link.now }
{
    let mut other = String::new(alloc);
    add_found(rt, alloc, &mut other, link, workers)?;
    if other.as_str() != line.as_str() {
        add(line, "other", &other)?;
    }
    Ok(())
}

/// Adds what no worker finds, and what others find where that is something else.
fn add_all_found(
    rt: &(impl Threads + Wait + Sync),
    alloc: Global,
    line: &mut String,
    link: &LinkInput,
) -> Result<(), AllocError>
    requires { IsWellFormed link.now }
{
    add_found(rt, alloc, line, link, 0)?;
    add_other(rt, alloc, line, link, 1)?;
    add_other(rt, alloc, line, link, 2)?;
    add_other(rt, alloc, line, link, 8)?;
    add_other(rt, alloc, line, link, 64)
}

/// Adds what any number of workers finds in a link that is well formed.
pub fn add_traversals(
    rt: &(impl Threads + Wait + Sync),
    alloc: Global,
    line: &mut String,
    link: &LinkInput,
) -> Result<(), AllocError> {
    if check_link(link).is_err() {
        return Ok(());
    }
    add_all_found(rt, alloc, line, link)
}

#[test]
fn symbols_load(rt: HostRuntime) -> Result<(), Fail> {
    expect_rows(
        &rt,
        rt.alloc(),
        Asked::Traversal(OfTraversal::States),
        LOADS,
    )
}

#[test]
fn symbols_can_be_exported(rt: HostRuntime) -> Result<(), Fail> {
    expect_rows(
        &rt,
        rt.alloc(),
        Asked::Traversal(OfTraversal::Exports),
        EXPORTS,
    )
}

#[test]
fn every_number_of_workers_finds_the_same(rt: HostRuntime) -> Result<(), Fail> {
    expect_rows(
        &rt,
        rt.alloc(),
        Asked::Traversal(OfTraversal::Traversals),
        TRAVERSALS,
    )
}
