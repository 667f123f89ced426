//! What layouts answer of symbols, of their sections' starts, and of thread-local data.
//!
//! A row of starts has a number of bytes and a description. The answer is where the thread-local segment starts, the same rounded down,
//! where it ends, and where it starts so many bytes before; where thread-local data starts and the section with the GOT, whether the
//! plan is plain, and where the first three sections start. A row of symbols has the number of the first symbol of a range of three, and a
//! description. The answer is, for each symbol there and for the next one, the flags of its definition, its own value with its flags, those of
//! the definition, and the same as an interposable one; and then what the range has.

use crate::rows::{Asked, expect_rows};
use lk_answers::Answers;
use lk_compute::compute_alone;
use lk_input::read_link;
use lk_layout::{Layout, LayoutError, Resolution, Small64Arch};
use lk_link::{LinkInput, OutputSectionId, Small64, SymbolId, SymbolIdRange, ValueFlags};
use lk_test_rows::add;
use std::alloc::{AllocError, Global};
use std::test::Fail;

/// Starts.
const STARTS: &str = r#"
# Thread-local data, and such data that is all zero behind it, in a segment of their own; the bytes before it are more than memory has.
@ {"plan":{"page":4096,"base":["num",4096],"sections":[{"attrs":9,"parts":[[4,false]]},{"attrs":25,"parts":[[16,false]]},{"attrs":1,"parts":[[4,false]]}],"segments":[{"kind":"load"},{"kind":"tls"}],"events":[["seg",0],["seg",1],["sec",0],["sec",1],["endseg",1],["sec",2],["endseg",0]]},"groups":[[{"kind":"prelude"}],[{"kind":"object","sections":[{"slot":"must","part":0,"size":4},{"slot":"must","part":1,"size":16},{"slot":"must","part":2,"size":4}]}]]} ...
16 => tls 4096 aligned 4096 end 4128 before Some(4080) data 4096 got None plain true starts (4096, 4112, 4100)
17 => tls 4096 aligned 4096 end 4128 before Some(4064) data 4096 got None plain true starts (4096, 4112, 4100)
4096 => tls 4096 aligned 4096 end 4128 before Some(0) data 4096 got None plain true starts (4096, 4112, 4100)
4097 => tls 4096 aligned 4096 end 4128 before None data 4096 got None plain true starts (4096, 4112, 4100)
# The data behind it in a load segment of its own, which begins at the next page.
@ {"plan":{"page":4096,"base":["num",4096],"sections":[{"attrs":9,"parts":[[4,false]]},{"attrs":25,"parts":[[16,false]]},{"attrs":1,"parts":[[4,false]]}],"segments":[{"kind":"load"},{"kind":"load"}],"events":[["seg",0],["sec",0],["sec",1],["endseg",0],["seg",1],["sec",2],["endseg",1]]},"groups":[[{"kind":"prelude"}],[{"kind":"object","sections":[{"slot":"must","part":0,"size":4},{"slot":"must","part":1,"size":16},{"slot":"must","part":2,"size":4}]}]]} ...
0 => tls 0 aligned 0 end 0 before Some(0) data 4096 got None plain true starts (4096, 4112, 8196)
# The same in a third one, at a location that waits since before the second opened: not plain because of that.
@ {"plan":{"page":4096,"base":["num",4096],"sections":[{"attrs":9,"parts":[[4,false]]},{"attrs":25,"parts":[[16,false]]},{"attrs":1,"parts":[[4,false]]}],"segments":[{"kind":"load"},{"kind":"load"},{"kind":"load"}],"events":[["seg",0],["sec",0],["sec",1],["endseg",0],["loc",["num",12288]],["seg",1],["endseg",1],["seg",2],["sec",2],["endseg",2]]},"groups":[[{"kind":"prelude"}],[{"kind":"script"}],[{"kind":"object","sections":[{"slot":"must","part":0,"size":4},{"slot":"must","part":1,"size":16},{"slot":"must","part":2,"size":4}]}]]} ...
0 => tls 0 aligned 0 end 0 before Some(0) data 4096 got None plain false starts (4096, 4112, 12288)
# The location moves behind where the segment opens, so its start and its end are rounded.
@ {"plan":{"page":4096,"base":["num",4096],"sections":[{"attrs":1,"parts":[[4,false]]},{"attrs":9,"parts":[[4,false]]},{"attrs":25,"parts":[[16,false]]}],"segments":[{"kind":"load"},{"kind":"tls"}],"events":[["seg",0],["sec",0],["seg",1],["loc",["num",4104]],["sec",1],["sec",2],["endseg",1],["endseg",0]]},"groups":[[{"kind":"prelude"}],[{"kind":"script"}],[{"kind":"object","sections":[{"slot":"must","part":0,"size":4},{"slot":"must","part":1,"size":4},{"slot":"must","part":2,"size":8}]}]]} ...
16 => tls 4104 aligned 4096 end 4128 before Some(4080) data 4104 got None plain false starts (4096, 4104, 4112)
0 => tls 4104 aligned 4096 end 4128 before Some(4096) data 4104 got None plain false starts (4096, 4104, 4112)
# A segment without sections is told in any case: it starts at 0. One with an empty section that isn't emitted isn't told.
@ {"plan":{"page":16,"base":["num",64],"sections":[{"attrs":1,"parts":[[1,false]]},{"attrs":9,"parts":[[1,false]]}],"segments":[{"kind":"load"},{"kind":"tls","always":true}],"events":[["seg",0],["sec",0],["seg",1],["endseg",1],["sec",1],["endseg",0]]},"groups":[[{"kind":"prelude"}],[{"kind":"object","sections":[{"slot":"must","part":0,"size":4}]}]]} ...
0 => tls 0 aligned 0 end 0 before Some(0) data 68 got None plain true starts (64, 68, 0)
1 => tls 0 aligned 0 end 0 before None data 68 got None plain true starts (64, 68, 0)
@ {"plan":{"page":16,"base":["num",64],"sections":[{"attrs":1,"parts":[[1,false]]},{"attrs":9,"parts":[[1,false]]}],"segments":[{"kind":"load"},{"kind":"tls"}],"events":[["seg",0],["sec",0],["seg",1],["sec",1],["endseg",1],["endseg",0]]},"groups":[[{"kind":"prelude"}],[{"kind":"object","sections":[{"slot":"must","part":0,"size":4}]}]]} ...
1 => tls 0 aligned 0 end 0 before Some(0) data 68 got None plain true starts (64, 68, 0)
# A plan with a region isn't plain, and there is no thread-local data.
@ {"plan":{"page":16,"base":["num",64],"sections":[{"attrs":1,"parts":[[1,false]],"region":"r"}],"regions":[{"name":"r","origin":["num",64],"length":["num",64]}],"segments":[{"kind":"load"}],"events":[["seg",0],["sec",0],["endseg",0]]},"groups":[[{"kind":"prelude"}],[{"kind":"object","sections":[{"slot":"must","part":0,"size":4}]}]]} ...
1 => tls 0 aligned 0 end 0 before Some(0) data 0 got None plain false starts (64, 0, 0)
# Three sections, and a plan that names no part for the GOT.
@ {"plan":{"page":4096,"base":["num",4096],"sections":[{"name":"A","attrs":1,"parts":[[8,false]]},{"name":"B","attrs":1,"parts":[[1,false]]},{"name":"C","attrs":17,"parts":[[16,false]]}],"segments":[{"kind":"load"}],"events":[["seg",0],["sec",0],["sec",1],["sec",2],["endseg",0]]},"groups":[[{"kind":"prelude"}],[{"kind":"object","name":"a.o","sections":[{"slot":"must","part":0,"size":8},{"slot":"must","part":1,"size":7},{"slot":"must","part":2,"size":16}]}]]} ...
0 => tls 0 aligned 0 end 0 before Some(0) data 0 got None plain true starts (4096, 4104, 4112)
# The section with the GOT starts before the part for it. A secondary section starts by itself.
@ {"plan":{"page":16,"base":["num",32],"sections":[{"attrs":1,"parts":[[1,false]]},{"attrs":1,"parts":[[16,false],[8,false]],"primary":0}],"segments":[{"kind":"load"}],"events":[["seg",0],["sec",0],["sec",1],["endseg",0]],"plt":1,"got":2},"groups":[[{"kind":"prelude"}],[{"kind":"object","symbols":[{"at":["sec",0,0],"name":"f"}],"sections":[{"slot":"must","part":0,"size":4,"relocs":[[0,"PltRelative",0,0,false]]}]}]]} ...
0 => tls 0 aligned 0 end 0 before Some(0) data 0 got Some(48) plain true starts (32, 48, 0)
"#;

/// Symbols.
const SYMBOLS: &str = r#"
# Marked late: the end of an emitted section and what is forced; a symbol of an object that one of these stands for has none itself.
@ {"plan":{"page":16,"base":["num",32],"sections":[{"attrs":1,"parts":[[1,false]]},{"attrs":1,"parts":[[1,false]]}],"segments":[{"kind":"load"}],"events":[["seg",0],["sec",0],["sec",1],["endseg",0]]},"groups":[[{"kind":"prelude","symbols":[{"at":["start",0],"name":"s0"},{"at":["end",0],"name":"e0"},{"at":["start",1],"name":"s1"},{"at":["loadbase"],"name":"b"},{"at":["force"],"name":"f"},{"at":["undefined"],"name":"u"}]}],[{"kind":"object","symbols":[{"at":["undef"],"def":1}],"sections":[{"slot":"must","part":0,"size":4}]}]]} ...
0 => symbol (0, None, None, None) symbol (64, Some((36, 64)), Some((36, 64)), Some((36, 96))) symbol (0, None, None, None) symbol (0, None, None, None) range [None, Some((36, 64)), None]
4 => symbol (64, Some((0, 64)), Some((0, 64)), Some((0, 96))) symbol (0, None, None, None) symbol (64, None, Some((36, 64)), Some((36, 96))) symbol (0, None, None, None) range [Some((0, 64)), None, None]
5 => symbol (0, None, None, None) symbol (64, None, Some((36, 64)), Some((36, 96))) symbol (0, None, None, None) symbol (0, None, None, None) range [None, None]
7 => symbol (0, None, None, None) symbol (0, None, None, None) symbol (0, None, None, None) symbol (0, None, None, None) range []
# Where there is no symbol table nothing is marked.
@ {"options":{"strip_all":true},"plan":{"page":16,"base":["num",32],"sections":[{"attrs":1,"parts":[[1,false]]}],"segments":[{"kind":"load"}],"events":[["seg",0],["sec",0],["endseg",0]]},"groups":[[{"kind":"prelude","symbols":[{"at":["end",0],"name":"e0"},{"at":["force"],"name":"f"}]}],[{"kind":"object","sections":[{"slot":"must","part":0,"size":4}]}]]} ...
0 => symbol (0, None, None, None) symbol (0, None, None, None) symbol (0, None, None, None) symbol (0, None, None, None) range [None, None]
# No late mark, but marks of references: by a branch that a thunk may stand in for, which marks its own symbol, and by the GOT.
@ {"options":{"branch_range":2097153},"plan":{"page":16,"base":["num",32],"sections":[{"attrs":5,"parts":[[1,false]]},{"attrs":3,"parts":[[8,false]]}],"segments":[{"kind":"load"}],"events":[["seg",0],["sec",0],["sec",1],["endseg",0]],"primary":0,"got":1},"groups":[[{"kind":"prelude"}],[{"kind":"object","symbols":[{"at":["sec",0,2],"name":"f","flags":32},{"at":["abs",7],"name":"n","flags":1}],"sections":[{"slot":"must","size":4,"attrs":4}]}],[{"kind":"object","symbols":[{"at":["undef"],"def":0,"name":"f"}],"sections":[{"slot":"must","size":4,"attrs":4,"relocs":[[0,"Relative",0,0,true],[0,"Got",0,0,false]]}]}]]} ...
0 => symbol (224, Some((34, 224)), Some((34, 224)), Some((34, 224))) symbol (1, None, None, None) symbol (224, None, Some((34, 224)), Some((34, 224))) symbol (0, None, None, None) range [Some((34, 224)), None, None]
# Entries are kept: the first of a range is a redirect with two of them.
@ {"options":{"output":"shared"},"plan":{"page":16,"sections":[{"attrs":1,"parts":[[8,false]]},{"attrs":1,"parts":[[16,false]]},{"attrs":1,"parts":[[1,false]]},{"attrs":1,"parts":[[8,false]]}],"segments":[{"kind":"load"}],"events":[["seg",0],["sec",0],["sec",1],["sec",2],["sec",3],["endseg",0]],"got":0,"plt":1,"dynsym":3},"groups":[[{"kind":"prelude"}],[{"kind":"script","symbols":[{"at":["redirect",["add",["num",40],["num",2]],["none"],false],"name":"x"}]}],[{"kind":"object","symbols":[{"at":["undef"],"def":0}],"sections":[{"slot":"must","part":2,"size":4,"relocs":[[0,"Got",0,0,false],[1,"PltRelative",0,0,false]]}]}]]} ...
0 => symbol (8640, Some((42, 8640)), Some((42, 8640)), Some((42, 8672))) symbol (8640, None, Some((42, 8640)), Some((42, 8672))) symbol (0, None, None, None) symbol (0, None, None, None) range [Some((42, 8640)), None]
"#;

/// Adds what a layout tells of its thread-local segment, so many bytes before it, and of its data.
fn add_thread_local(line: &mut String, bytes: u64, layout: &Layout<'_>) -> Result<(), AllocError> {
    add(line, "tls", &layout.tls_start_address())?;
    add(line, "aligned", &layout.tls_start_address_aligned())?;
    add(line, "end", &layout.tls_end_address())?;
    add(line, "before", &layout.tls_start_address_aarch64(bytes))?;
    add(line, "data", &layout.tlv_data_start_address())
}

/// Where an output section starts.
fn start_of(layout: &Layout<'_>, section: u32) -> u64 {
    layout.mem_address_of_built_in(OutputSectionId::from_u32(section))
}

/// Adds what a layout tells of its sections.
fn add_sections(line: &mut String, layout: &Layout<'_>) -> Result<(), AllocError> {
    add(line, "got", &layout.got_base())?;
    add(line, "plain", &layout.is_plain())?;
    let starts = (
        start_of(layout, 0),
        start_of(layout, 1),
        start_of(layout, 2),
    );
    add(line, "starts", &starts)
}

/// The value of a resolution, with its flags.
fn told(resolution: Option<Resolution>) -> Option<(u64, u32)> {
    let resolution = resolution?;
    Some((resolution.raw_value, resolution.flags.0))
}

/// Adds what a layout tells of a symbol.
fn add_symbol(line: &mut String, layout: &Layout<'_>, number: u32) -> Result<(), AllocError> {
    let symbol = SymbolId::from_u32(number);
    let interposable = layout.symbol_resolution_with_flags(symbol, ValueFlags::INTERPOSABLE);
    let answer = (
        layout.flags_for_symbol(symbol).0,
        told(layout.local_symbol_resolution(symbol)),
        told(layout.merged_symbol_resolution(symbol)),
        told(interposable),
    );
    add(line, "symbol", &answer)
}

/// Adds the resolutions of three symbols, by index and then one by one.
fn add_range(
    alloc: Global,
    line: &mut String,
    layout: &Layout<'_>,
    first: u32,
) -> Result<(), AllocError> {
    if first > 1000 {
        return Ok(());
    }
    let range = SymbolIdRange::new(SymbolId::from_u32(first), 3);
    let resolutions = layout.resolutions_in_range(range);
    let mut indexed = Vec::new(alloc);
    for place in 0..resolutions.len() {
        indexed.push(told(resolutions.get(place)))?;
    }
    let mut walked = Vec::new(alloc);
    for resolution in resolutions {
        walked.push(told(resolution))?;
    }
    if indexed == walked {
        add(line, "range", &walked)
    } else {
        add(line, "ranges", &(indexed, walked))
    }
}

/// Adds what a layout tells of four symbols and a range of three.
fn add_symbols(
    alloc: Global,
    line: &mut String,
    first: u32,
    layout: &Layout<'_>,
) -> Result<(), AllocError> {
    for place in 0..4 {
        add_symbol(line, layout, first.saturating_add(place))?;
    }
    add_range(alloc, line, layout, first)
}

/// Adds what a layout tells of starts.
fn add_starts(line: &mut String, bytes: u64, layout: &Layout<'_>) -> Result<(), AllocError> {
    add_thread_local(line, bytes, layout)?;
    add_sections(line, layout)
}

/// Adds what a layout tells of starts or of symbols, or why there is none.
fn add_answer(
    alloc: Global,
    line: &mut String,
    asked: Asked,
    number: u32,
    answer: &Result<Layout<'_>, LayoutError>,
) -> Result<(), AllocError> {
    match answer {
        Ok(layout) => match asked {
            Asked::Symbols => add_symbols(alloc, line, number, layout),
            _ => add_starts(line, u64::from(number), layout),
        },
        Err(error) => add(line, "refused", error),
    }
}

/// Adds what the layout of a link tells of starts or of symbols.
fn add_answers(
    alloc: Global,
    line: &mut String,
    asked: Asked,
    number: u32,
    link: &LinkInput,
) -> Result<(), AllocError> {
    let answer = compute_alone(alloc, link, &Small64, &Small64Arch);
    let added = add_answer(alloc, line, asked, number, &answer);
    drop(answer);
    added
}

/// Adds what the layout of a description tells, behind which stands a number.
pub fn add_queries(
    alloc: Global,
    line: &mut String,
    asked: Asked,
    text: &str,
) -> Result<(), AllocError> {
    let (description, number) = text.rsplit_once(' ').unwrap_or((text, ""));
    let number = number.parse::<u32>().unwrap_or(0);
    match read_link(alloc, description.as_bytes()) {
        Ok(link) => add_answers(alloc, line, asked, number, &link),
        Err(error) => write!(line, "no link: {error}"),
    }
}

#[test]
fn starts_are_told(rt: HostRuntime) -> Result<(), Fail> {
    expect_rows(&rt, rt.alloc(), Asked::Starts, STARTS)
}

#[test]
fn symbols_are_told(rt: HostRuntime) -> Result<(), Fail> {
    expect_rows(&rt, rt.alloc(), Asked::Symbols, SYMBOLS)
}

/// Redirects that are worked out, or why there is no layout; behind a description stands the number of the first symbol that is told.
const COMPUTED: &str = r#"
@ {"plan":{"page":1},"groups":[[{"kind":"prelude"}],[{"kind":"script","symbols":[...}]]} 0
# One after the other, one of itself, of a later one, and ones without a value.
{"at":["redirect",["num",16],["none"],false],"name":"x"},{"at":["redirect",["add",["sym",0],["num",1]],["none"],false],"name":"y"}] => symbol (8256, Some((16, 8256)), Some((16, 8256)), Some((16, 8288))) symbol (8256, Some((17, 8256)), Some((17, 8256)), Some((17, 8288))) symbol (0, None, None, None) symbol (0, None, None, None) range [Some((16, 8256)), Some((17, 8256))]
{"at":["redirect",["sym",0],["none"],false],"name":"z"}] => refused expression at symbol 0: self reference
{"at":["redirect",["sym",1],["none"],false],"name":"w"},{"at":["redirect",["num",1],["none"],false],"name":"later"}] => refused expression at symbol 0: no address
{"at":["redirect",["div",["num",1],["num",0]],["none"],false],"name":"x"}] => refused expression at symbol 0: division by zero
{"at":["redirect",["sub",["num",1],["num",2]],["none"],false],"name":"x"}] => refused expression at symbol 0: overflow
# One that is only provided, and has a name where another asks for it, or has none.
{"at":["redirect",["num",7],["none"],true],"name":"r"},{"at":["redirect",["sym",0],["none"],false],"name":"s"}] => symbol (8256, Some((7, 8256)), Some((7, 8256)), Some((7, 8288))) symbol (8256, Some((7, 8256)), Some((7, 8256)), Some((7, 8288))) symbol (0, None, None, None) symbol (0, None, None, None) range [Some((7, 8256)), Some((7, 8256))]
{"at":["redirect",["num",7],["none"],true]},{"at":["redirect",["sym",0],["none"],false],"name":"s"}] => refused expression at symbol 1: no address
# Where nothing is loaded, what is loaded has no start.
@ ...
{"plan":{"page":1},"groups":[[{"kind":"prelude","symbols":[{"at":["loadbase"],"name":"b"},{"at":["redirect",["sym",0],["none"],false],"name":"p"}]}]]} 0 => refused expression at symbol 1: no address
# Redirects of files that the symbol isn't of: an object, another script and the prelude stand for it. They are never looked at, though two have no value.
{"plan":{"page":1},"groups":[[{"kind":"prelude","symbols":[{"at":["redirect",["div",["num",1],["num",0]],["none"],false],"name":"x","def":3}]}],[{"kind":"script","symbols":[{"at":["redirect",["sub",["num",1],["num",2]],["none"],false],"name":"x","def":3},{"at":["redirect",["num",9],["none"],false],"name":"y","def":4}]}],[{"kind":"object","symbols":[{"at":["abs",5],"name":"x"}]}],[{"kind":"script","symbols":[{"at":["redirect",["add",["num",3],["num",1]],["none"],false],"name":"y"}]}]],"options":{"entry":0}} 0 | {"plan":{"page":1},"groups":[[{"kind":"prelude","symbols":[{"at":["redirect",["sym",0],["none"],false],"name":"x","def":3}]}],[{"kind":"script","symbols":[{"at":["redirect",["dot"],["none"],false],"name":"x","def":3},{"at":["redirect",["num",9],["none"],false],"name":"y","def":4}]}],[{"kind":"object","symbols":[{"at":["abs",5],"name":"x"}]}],[{"kind":"script","symbols":[{"at":["redirect",["add",["num",3],["num",1]],["none"],false],"name":"y"}]}]],"options":{"entry":1}} 0 => symbol (64, None, Some((5, 64)), Some((5, 96))) symbol (64, None, Some((5, 64)), Some((5, 96))) symbol (8256, None, Some((4, 8256)), Some((4, 8288))) symbol (64, Some((5, 64)), Some((5, 64)), Some((5, 96))) range [None, None, None]
"#;

#[test]
fn redirects_are_computed(rt: HostRuntime) -> Result<(), Fail> {
    expect_rows(&rt, rt.alloc(), Asked::Symbols, COMPUTED)
}
