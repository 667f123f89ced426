//! Reading: what is read of descriptions, and where others are refused.

use crate::rows::{Asked, expect_rows, expect_text};
use crate::shown::Shown;
use lk_input::{InputError, read_link};
use lk_link::LinkInput;
use std::alloc::{AllocError, Global};
use std::test::Fail;

mod fields;
mod items;
mod lists;
mod nesting;
pub mod summary;

/// Adds what reading gave: read, no JSON, or where the first fault is.
pub fn add_result(
    line: &mut String,
    read: &Result<LinkInput, InputError>,
) -> Result<(), AllocError> {
    match read {
        Ok(_) => line.push_str("read"),
        Err(InputError::NotJson) => line.push_str("not JSON"),
        Err(InputError::Shape(path)) if path.as_str().is_empty() => line.push_str("at the top"),
        Err(InputError::Shape(path)) => write!(line, "at {path}", path = path.as_str()),
        Err(InputError::NoMemory) => Err(AllocError),
    }
}

/// Texts, and what becomes of them.
const OUTCOMES: &str = r#"
 => not JSON
{ => not JSON
{"plan":{"page":1}}x => not JSON
# A number past every float is no JSON even where it isn't read; one past 64 bits is a float.
{"x":1e999,"plan":{"page":1}} => not JSON
{"x":18446744073709551616,"plan":{"page":1}} => read
# The path of the top itself is empty.
[] => at the top
null => at the top
0 => at the top
{} => at /plan
{"options":null,"plan":{"page":1}} => at /options
{"options":[],"plan":{"page":1}} => at /options
{"plan":[]} => at /plan
{"plan":{}} => at /plan/page
# Of equal keys the last stays, and the shape of the first isn't looked at.
{"plan":0,"plan":{"page":1}} => read
{"plan":{"page":1},"plan":0} => at /plan
# Missing fields that have no default.
{"plan":{"page":1,"segments":[{}]}} => at /plan/segments/0/kind
{"plan":{"page":1,"regions":[{}]}} => at /plan/regions/0/origin
{"plan":{"page":1,"regions":[{"origin":["dot"]}]}} => at /plan/regions/0/length
{"plan":{"page":1},"groups":[[],[{}]]} => at /groups/1/0/kind
{"plan":{"page":1},"groups":[[{"kind":"object","symbols":[{}]}]]} => at /groups/0/0/symbols/0/at
{"plan":{"page":1},"groups":[[{"kind":"object","sections":[{}]}]]} => at /groups/0/0/sections/0/slot
# Items of lists.
{"plan":{"page":1},"groups":[{}]} => at /groups/0
{"plan":{"page":1},"groups":[[],[[]]]} => at /groups/1/0
{"plan":{"page":1},"options":{"strip_names":["a",0]}} => at /options/strip_names/1
{"plan":{"page":1},"options":{"export_list":[null]}} => at /options/export_list/0
{"plan":{"page":1,"sections":[{},[]]}} => at /plan/sections/1
# A wrong item is found before one too many, and before a later one.
{"plan":{"page":1,"base":["num","x",2]}} => at /plan/base/1
{"plan":{"page":1,"base":["add",["sub",["num",1],["num"]],0,0]}} => at /plan/base/1/2/1
{"plan":{"page":1,"base":["add",["dot"],["sub",["dot"],["dot"],0]]}} => at /plan/base/2
# Ranges inside fixed lists.
{"plan":{"page":1,"base":["num",18446744073709551616]}} => at /plan/base/1
{"plan":{"page":1,"base":["sym",4294967296]}} => at /plan/base/1
{"plan":{"page":1,"events":[["sec",0],["seg",4294967296]]}} => at /plan/events/1/1
{"plan":{"page":1,"sections":[{"parts":[[8,0]]}]}} => at /plan/sections/0/parts/0/1
# Data are as many digits as two for each byte, whatever the slot.
{"plan":{"page":1},"groups":[[{"kind":"object","sections":[{"slot":"merge","data":"012"}]}]]} => at /groups/0/0/sections/0/data
{"plan":{"page":1},"groups":[[{"kind":"object","sections":[{"slot":"merge","data":"0g"}]}]]} => at /groups/0/0/sections/0/data
{"plan":{"page":1},"groups":[[{"kind":"object","sections":[{"slot":"merge","data":"\u00e9"}]}]]} => at /groups/0/0/sections/0/data
{"plan":{"page":1},"groups":[[{"kind":"object","sections":[{"slot":"merge","data":["00"]}]}]]} => at /groups/0/0/sections/0/data
{"plan":{"page":1},"groups":[[{"kind":"object","sections":[{"slot":"merge","data":"","size":-1}]}]]} => at /groups/0/0/sections/0/size
{"plan":{"page":1},"groups":[[{"kind":"object","sections":[{"slot":"debug","data":null}]}]]} => at /groups/0/0/sections/0/data
{"plan":{"page":1},"groups":[[{"kind":"object","sections":[{"slot":"must","data":"0","strings":0}]}]]} => at /groups/0/0/sections/0/data
{"plan":{"page":1},"groups":[[{"kind":"object","sections":[{"data":"0","size":null,"slot":"must"}]}]]} => at /groups/0/0/sections/0/size
{"plan":{"page":1},"groups":[[{"kind":"object","sections":[{"slot":"must","size":1,"data":"0001"}]}]]} => read
# Only an object's sections are read.
{"plan":{"page":1},"groups":[[{"kind":"prelude","sections":[]}]]} => read
{"plan":{"page":1},"groups":[[{"kind":"script","sections":null}]]} => read
{"plan":{"page":1},"groups":[[{"kind":"synthetic","candidates":0}]]} => at /groups/0/0/candidates
"#;

#[test]
fn texts_are_read_or_refused(rt: HostRuntime) -> Result<(), Fail> {
    expect_rows(&rt, rt.alloc(), Asked::Outcome, OUTCOMES)
}

#[test]
fn bytes_that_are_no_text_are_no_json(rt: HostRuntime) -> Result<(), Fail> {
    let mut line = String::new(rt.alloc());
    let read = read_link(rt.alloc(), b"{\"plan\":{\"page\":1},\"x\":\"\xff\"}");
    add_result(&mut line, &read)?;
    expect_text(&rt, line.as_str(), "not JSON");
    Ok(())
}

/// Options as a member behind the plan, or none, and what is read of them.
const OPTIONS: &str = r#"
@ {"plan":{"page":1}...}
 => options ((StaticExecutable, Default), (true, true, true, false, false, false, false), (0, 0, 268435456, 140000, None)) names (None, [], None)
,"options":{} => options ((StaticExecutable, Default), (true, true, true, false, false, false, false), (0, 0, 268435456, 140000, None)) names (None, [], None)
,"options":{"output":"dynamic","gc":false,"error_objects":false,"error_dynamics":false,"export_all":true,"export_list":["b","a","b"],"restrictive":true,"strip_all":true,"discard":"all","strip_names":["\u00e9",""],"identity":"lk 1","stack":18446744073709551615,"entry":4294967295,"relax":true,"branch_range":18446744073709551614,"bucket_limit":18446744073709551613,"merge_group":18446744073709551612} => options ((DynamicExecutable, All), (false, false, false, true, true, true, true), (18446744073709551615, 18446744073709551614, 18446744073709551613, 18446744073709551612, Some(SymbolId { number: 4294967295 }))) names (Some([Text { string: "b" }, Text { string: "a" }, Text { string: "b" }]), [Text { string: "é" }, Text { string: "" }], Some(Text { string: "lk 1" }))
,"options":{"output":"shared","gc":true,"export_list":[],"discard":"none","identity":"","stack":0,"entry":0,"branch_range":0,"bucket_limit":0,"merge_group":0} => options ((SharedObject, None), (true, true, true, false, false, false, false), (0, 0, 0, 0, Some(SymbolId { number: 0 }))) names (Some([]), [], Some(Text { string: "" }))
,"options":{"output":"partial","discard":"default","error_objects":true,"error_dynamics":false,"stack":1,"branch_range":2,"bucket_limit":3,"merge_group":4} => options ((Partial, Default), (true, true, false, false, false, false, false), (1, 2, 3, 4, None)) names (None, [], None)
,"options":{"output":"static","error_objects":false} => options ((StaticExecutable, Default), (true, false, true, false, false, false, false), (0, 0, 268435456, 140000, None)) names (None, [], None)
"#;

/// Plans, and what is read of them.
const PLANS: &str = r#"
@ {"plan":...}
{"page":0} => page (0, [Operand(Number(0))], (false, false, false)) segments ([], NamedParts { got: None, plt: None, symtab_local: None, symtab_global: None, strtab: None, dynsym: None, dynstr: None, file_header: None, program_headers: None, section_headers: None, shstrtab: None, comment: None, primary: None }, None)
{"page":4096,"base":["num",18446744073709551615],"custom_base":true,"got":0,"plt":1,"symtab_local":2,"symtab_global":3,"strtab":4,"dynsym":5,"dynstr":6,"file_header":7,"program_headers":8,"section_headers":9,"shstrtab":10,"comment":11,"primary":12,"singletons":13} => page (4096, [Operand(Number(18446744073709551615))], (true, false, false)) segments ([], NamedParts { got: Some(PartId { number: 0 }), plt: Some(PartId { number: 1 }), symtab_local: Some(PartId { number: 2 }), symtab_global: Some(PartId { number: 3 }), strtab: Some(PartId { number: 4 }), dynsym: Some(PartId { number: 5 }), dynstr: Some(PartId { number: 6 }), file_header: Some(PartId { number: 7 }), program_headers: Some(PartId { number: 8 }), section_headers: Some(PartId { number: 9 }), shstrtab: Some(PartId { number: 10 }), comment: Some(PartId { number: 11 }), primary: Some(PartId { number: 12 }) }, Some(OutputSectionId { number: 13 }))
{"page":1,"custom_phdrs":true,"sections":[{}],"segments":[{"kind":"load"},{"kind":"tls","always":true},{"kind":"stack"},{"kind":"other","always":false}]} => page (1, [Operand(Number(0))], (false, true, false)) section (Text { string: "" }, (0, 1, [], None), (Auto, false, false), (None, None)) segments ([PlanSegment { kind: Load, always: false }, PlanSegment { kind: Tls, always: true }, PlanSegment { kind: Stack, always: false }, PlanSegment { kind: Other, always: false }], NamedParts { got: None, plt: None, symtab_local: None, symtab_global: None, strtab: None, dynsym: None, dynstr: None, file_header: None, program_headers: None, section_headers: None, shstrtab: None, comment: None, primary: None }, None)
{"page":1,"phdrs_headers":true,"sections":[{"name":".text","attrs":4294967295,"align":18446744073709551615,"parts":[[16,false],[18446744073709551615,true]],"primary":4294967295,"emit":"always","region":"RAM","at":["num",7],"top":true,"counters":false},{"emit":"never","counters":true},{"emit":"auto","align":0}]} => page (1, [Operand(Number(0))], (false, false, true)) section (Text { string: ".text" }, (4294967295, 18446744073709551615, [PlanPart { alignment: 16, packed: false }, PlanPart { alignment: 18446744073709551615, packed: true }], Some(OutputSectionId { number: 4294967295 })), (Always, true, false), (Some(Text { string: "RAM" }), Some([Operand(Number(7))]))) section (Text { string: "" }, (0, 1, [], None), (Never, false, true), (None, None)) section (Text { string: "" }, (0, 0, [], None), (Auto, false, false), (None, None)) segments ([], NamedParts { got: None, plt: None, symtab_local: None, symtab_global: None, strtab: None, dynsym: None, dynstr: None, file_header: None, program_headers: None, section_headers: None, shstrtab: None, comment: None, primary: None }, None)
{"page":1,"regions":[{"name":"A","origin":["num",1],"length":["num",2]},{"origin":["dot"],"length":["headers"]}]} => page (1, [Operand(Number(0))], (false, false, false)) region (Text { string: "A" }, [Operand(Number(1))], [Operand(Number(2))]) region (Text { string: "" }, [Operand(Dot)], [Operand(SizeOfHeaders)]) segments ([], NamedParts { got: None, plt: None, symtab_local: None, symtab_global: None, strtab: None, dynsym: None, dynstr: None, file_header: None, program_headers: None, section_headers: None, shstrtab: None, comment: None, primary: None }, None)
{"page":1,"events":[["seg",0],["sec",4294967295],["endseg",1],["loc",["dot"]],["locrel",["num",1],2],["addr",["num",3]]]} => page (1, [Operand(Number(0))], (false, false, false)) seg SegmentId { number: 0 } sec OutputSectionId { number: 4294967295 } endseg SegmentId { number: 1 } loc [Operand(Dot)] locrel ([Operand(Number(1))], OutputSectionId { number: 2 }) addr [Operand(Number(3))] segments ([], NamedParts { got: None, plt: None, symtab_local: None, symtab_global: None, strtab: None, dynsym: None, dynstr: None, file_header: None, program_headers: None, section_headers: None, shstrtab: None, comment: None, primary: None }, None)
# A left operand, a right one, their operator.
{"page":1,"base":["sub",["add",["num",1],["mul",["sym",2],["dot"]]],["div",["align",["addr",3],["sizeof",4]],["max",["origin",5],["min",["length",6],["headers"]]]]]} => page (1, [Operand(Number(1)), Operand(Symbol(SymbolId { number: 2 })), Operand(Dot), Operator(Multiply), Operator(Add), Operand(Address(OutputSectionId { number: 3 })), Operand(SizeOf(OutputSectionId { number: 4 })), Operator(Align), Operand(Origin(RegionId { number: 5 })), Operand(Length(RegionId { number: 6 })), Operand(SizeOfHeaders), Operator(Min), Operator(Max), Operator(Divide), Operator(Subtract)], (false, false, false)) segments ([], NamedParts { got: None, plt: None, symtab_local: None, symtab_global: None, strtab: None, dynsym: None, dynstr: None, file_header: None, program_headers: None, section_headers: None, shstrtab: None, comment: None, primary: None }, None)
# Of equal keys the last stays; unknown keys are ignored, whatever they hold.
{"page":"x","page":2,"pages":null,"x":[[{"page":[1.5e3]}]]} => page (2, [Operand(Number(0))], (false, false, false)) segments ([], NamedParts { got: None, plt: None, symtab_local: None, symtab_global: None, strtab: None, dynsym: None, dynstr: None, file_header: None, program_headers: None, section_headers: None, shstrtab: None, comment: None, primary: None }, None)
"#;

/// Groups, and what is read of them.
const GROUPS: &str = r#"
@ {"plan":{"page":1},"groups":...}
[] => groups 0
[[],[{"kind":"prelude"},{"kind":"object","name":"a.o","archive":true}],[{"kind":"dynamic","export":true},{"kind":"notloaded","check":true},{"kind":"synthetic"},{"kind":"script"}]] => groups 3 group group file (Prelude, Text { string: "" }, (false, false, false), []) file (Object, Text { string: "a.o" }, (true, false, false), []) group file (Dynamic, Text { string: "" }, (false, true, false), []) file (NotLoaded, Text { string: "" }, (false, false, true), []) file (SyntheticSymbols, Text { string: "" }, (false, false, false), []) file (LinkerScript, Text { string: "" }, (false, false, false), [])
[[{"kind":"object","symbols":[{"at":["undef"]},{"name":"s","at":["sec",4294967295,18446744073709551615],"def":4294967295,"flags":4294967295,"local":true},{"at":["common",4294967295,18446744073709551615],"def":0,"weak":true},{"at":["abs",18446744073709551615],"hidden":true}]}]] => groups 1 group file (Object, Text { string: "" }, (false, false, false), []) symbol (Text { string: "" }, None, 0, (false, false, false)) undef symbol (Text { string: "s" }, Some(SymbolId { number: 4294967295 }), 4294967295, (true, false, false)) sec (4294967295, 18446744073709551615) symbol (Text { string: "" }, Some(SymbolId { number: 0 }), 0, (false, true, false)) common (PartId { number: 4294967295 }, 18446744073709551615) symbol (Text { string: "" }, None, 0, (false, false, true)) abs 18446744073709551615
# Each placement is read in a file of each kind.
[[{"kind":"prelude","symbols":[{"at":["dyn"]},{"at":["sec",0,1]},{"at":["undefined"]},{"at":["force"]},{"at":["start",1]}]},{"kind":"object","symbols":[{"at":["end",2]},{"at":["groupend",3]},{"at":["tlsend"]},{"at":["loadbase"]}]}]] => groups 1 group file (Prelude, Text { string: "" }, (false, false, false), []) symbol (Text { string: "" }, None, 0, (false, false, false)) dyn symbol (Text { string: "" }, None, 0, (false, false, false)) sec (0, 1) symbol (Text { string: "" }, None, 0, (false, false, false)) undefined symbol (Text { string: "" }, None, 0, (false, false, false)) force symbol (Text { string: "" }, None, 0, (false, false, false)) start OutputSectionId { number: 1 } file (Object, Text { string: "" }, (false, false, false), []) symbol (Text { string: "" }, None, 0, (false, false, false)) end OutputSectionId { number: 2 } symbol (Text { string: "" }, None, 0, (false, false, false)) groupend OutputSectionId { number: 3 } symbol (Text { string: "" }, None, 0, (false, false, false)) tlsend symbol (Text { string: "" }, None, 0, (false, false, false)) loadbase
[[{"kind":"script","symbols":[{"at":["redirect",["dot"],["none"],false]},{"at":["redirect",["num",1],["start",2],true]},{"at":["redirect",["sym",3],["end",4],false]},{"at":["redirect",["num",0],["counter",4294967295],true]}]}]] => groups 1 group file (LinkerScript, Text { string: "" }, (false, false, false), []) symbol (Text { string: "" }, None, 0, (false, false, false)) redirect ([Operand(Dot)], None, false) symbol (Text { string: "" }, None, 0, (false, false, false)) redirect ([Operand(Number(1))], SectionStart(OutputSectionId { number: 2 }), true) symbol (Text { string: "" }, None, 0, (false, false, false)) redirect ([Operand(Symbol(SymbolId { number: 3 }))], SectionEnd(OutputSectionId { number: 4 }), false) symbol (Text { string: "" }, None, 0, (false, false, false)) redirect ([Operand(Number(0))], Counter(4294967295), true)
[[{"kind":"object","sections":[{"slot":"must"},{"name":".x","slot":"unloaded","part":4294967295,"size":18446744073709551615,"strings":true,"attrs":4294967295,"group":4294967295},{"slot":"discard","sorted":true,"group":0},{"slot":"debug"},{"slot":"mustdebug","size":3}],"candidates":[[1,2,3,4294967295]]}]] => groups 1 group file (Object, Text { string: "" }, (false, false, false), [Candidate { output: OutputSectionId { number: 1 }, file: FileId { group: 2, file: 3 }, index: 4294967295 }]) section (Text { string: "" }, (MustLoad, PartId { number: 0 }, 0, []), (false, false, false), 0, None) holds ([], []) section (Text { string: ".x" }, (Unloaded, PartId { number: 4294967295 }, 18446744073709551615, []), (false, true, false), 4294967295, Some(4294967295)) holds ([], []) section (Text { string: "" }, (Discard, PartId { number: 0 }, 0, []), (false, false, true), 0, Some(0)) holds ([], []) section (Text { string: "" }, (DebugInfo, PartId { number: 0 }, 0, []), (false, false, false), 0, None) holds ([], []) section (Text { string: "" }, (MustLoadDebugInfo, PartId { number: 0 }, 3, []), (false, false, false), 0, None) holds ([], [])
[[{"kind":"object","sections":[{"slot":"must","relocs":[[18446744073709551615,"Absolute",4294967295,9223372036854775807,true],[0,"TlsDescCall",0,-9223372036854775808,false],[1,"None",0,-1,false]],"relax":[[18446744073709551615,4294967295,18446744073709551614,18446744073709551613],[0,0,0,0]]}]}]] => groups 1 group file (Object, Text { string: "" }, (false, false, false), []) section (Text { string: "" }, (MustLoad, PartId { number: 0 }, 0, []), (false, false, false), 0, None) holds ([Relocation { offset: 18446744073709551615, addend: 9223372036854775807, symbol: 4294967295, kind: Absolute, thunkable: true }, Relocation { offset: 0, addend: -9223372036854775808, symbol: 0, kind: TlsDescCall, thunkable: false }, Relocation { offset: 1, addend: -1, symbol: 0, kind: None, thunkable: false }], [RelaxCandidate { at: 18446744073709551615, limit: 18446744073709551614, del: 18446744073709551613, symbol: 4294967295 }, RelaxCandidate { at: 0, limit: 0, del: 0, symbol: 0 }])
# Data are kept in each slot, and whether they are given; a merge section's are its size. Only objects have sections.
[[{"kind":"prelude","sections":0},{"kind":"object","sections":[{"slot":"merge","data":"00fF7a"},{"slot":"merge","size":9,"data":"0102"},{"slot":"merge","size":5},{"slot":"merge","size":5,"data":""},{"slot":"must","size":5,"data":"0a0B0c0D0e"},{"slot":"must","size":5},{"slot":"must","size":5,"data":""},{"slot":"unloaded","data":"80"},{"slot":"discard","data":"7f","size":1},{"slot":"debug","size":1,"data":"ffFf"},{"slot":"mustdebug","data":"00","size":1}]}]] => groups 1 group file (Prelude, Text { string: "" }, (false, false, false), []) file (Object, Text { string: "" }, (false, false, false), []) section (Text { string: "" }, (Merge, PartId { number: 0 }, 3, [0, 255, 122]), (true, false, false), 0, None) holds ([], []) section (Text { string: "" }, (Merge, PartId { number: 0 }, 2, [1, 2]), (true, false, false), 0, None) holds ([], []) section (Text { string: "" }, (Merge, PartId { number: 0 }, 0, []), (false, false, false), 0, None) holds ([], []) section (Text { string: "" }, (Merge, PartId { number: 0 }, 0, []), (true, false, false), 0, None) holds ([], []) section (Text { string: "" }, (MustLoad, PartId { number: 0 }, 5, [10, 11, 12, 13, 14]), (true, false, false), 0, None) holds ([], []) section (Text { string: "" }, (MustLoad, PartId { number: 0 }, 5, []), (false, false, false), 0, None) holds ([], []) section (Text { string: "" }, (MustLoad, PartId { number: 0 }, 5, []), (true, false, false), 0, None) holds ([], []) section (Text { string: "" }, (Unloaded, PartId { number: 0 }, 0, [128]), (true, false, false), 0, None) holds ([], []) section (Text { string: "" }, (Discard, PartId { number: 0 }, 1, [127]), (true, false, false), 0, None) holds ([], []) section (Text { string: "" }, (DebugInfo, PartId { number: 0 }, 1, [255, 255]), (true, false, false), 0, None) holds ([], []) section (Text { string: "" }, (MustLoadDebugInfo, PartId { number: 0 }, 1, [0]), (true, false, false), 0, None) holds ([], [])
# Data may stand before the slot, and the last of equal keys stays.
[[{"kind":"object","sections":[{"data":"01","size":1,"slot":"must"},{"data":"01","slot":"merge"},{"data":0,"slot":"must","data":"02"}]}]] => groups 1 group file (Object, Text { string: "" }, (false, false, false), []) section (Text { string: "" }, (MustLoad, PartId { number: 0 }, 1, [1]), (true, false, false), 0, None) holds ([], []) section (Text { string: "" }, (Merge, PartId { number: 0 }, 1, [1]), (true, false, false), 0, None) holds ([], []) section (Text { string: "" }, (MustLoad, PartId { number: 0 }, 0, [2]), (true, false, false), 0, None) holds ([], [])
# All kinds of relocations.
[[{"kind":"object","sections":[{"slot":"must","relocs":[[1,"PltRelative",2,3,false],[1,"PltRelGotBase",2,3,false],[1,"Got",2,3,false],[1,"GotRelGotBase",2,3,false],[1,"GotRelative",2,3,false],[1,"GotRelativeLoongArch64",2,3,false],[1,"GotTpOff",2,3,false],[1,"GotTpOffLoongArch64",2,3,false],[1,"GotTpOffGot",2,3,false],[1,"GotTpOffGotBase",2,3,false],[1,"TlsGd",2,3,false],[1,"TlsGdGot",2,3,false],[1,"TlsGdGotBase",2,3,false],[1,"TlsDesc",2,3,false],[1,"TlsDescLoongArch64",2,3,false],[1,"TlsDescGot",2,3,false],[1,"TlsDescGotBase",2,3,false],[1,"TlsDescCall",2,3,false],[1,"TlsLd",2,3,false],[1,"TlsLdGot",2,3,false],[1,"TlsLdGotBase",2,3,false],[1,"Absolute",2,3,false],[1,"AbsoluteSet",2,3,false],[1,"AbsoluteSetWord6",2,3,false],[1,"AbsoluteAddition",2,3,false],[1,"AbsoluteAdditionWord6",2,3,false],[1,"AbsoluteSubtraction",2,3,false],[1,"AbsoluteSubtractionWord6",2,3,false],[1,"AbsoluteLowPart",2,3,false],[1,"Relative",2,3,false],[1,"RelativeRiscVLow12",2,3,false],[1,"RelativeLoongArchHigh",2,3,false],[1,"DtpOff",2,3,false],[1,"TpOff",2,3,false],[1,"SymRelGotBase",2,3,false],[1,"PairSubtractionULEB128RiscV",2,3,false],[1,"PairSubtractionULEB128LoongArch",2,3,false],[1,"MachoSubtraction",2,3,false],[1,"SymbolSize",2,3,false],[1,"None",2,3,false],[1,"Alignment",2,3,false],[1,"MachoAddition",2,3,false]]}]}]] => groups 1 group file (Object, Text { string: "" }, (false, false, false), []) section (Text { string: "" }, (MustLoad, PartId { number: 0 }, 0, []), (false, false, false), 0, None) holds ([Relocation { offset: 1, addend: 3, symbol: 2, kind: PltRelative, thunkable: false }, Relocation { offset: 1, addend: 3, symbol: 2, kind: PltRelGotBase, thunkable: false }, Relocation { offset: 1, addend: 3, symbol: 2, kind: Got, thunkable: false }, Relocation { offset: 1, addend: 3, symbol: 2, kind: GotRelGotBase, thunkable: false }, Relocation { offset: 1, addend: 3, symbol: 2, kind: GotRelative, thunkable: false }, Relocation { offset: 1, addend: 3, symbol: 2, kind: GotRelativeLoongArch64, thunkable: false }, Relocation { offset: 1, addend: 3, symbol: 2, kind: GotTpOff, thunkable: false }, Relocation { offset: 1, addend: 3, symbol: 2, kind: GotTpOffLoongArch64, thunkable: false }, Relocation { offset: 1, addend: 3, symbol: 2, kind: GotTpOffGot, thunkable: false }, Relocation { offset: 1, addend: 3, symbol: 2, kind: GotTpOffGotBase, thunkable: false }, Relocation { offset: 1, addend: 3, symbol: 2, kind: TlsGd, thunkable: false }, Relocation { offset: 1, addend: 3, symbol: 2, kind: TlsGdGot, thunkable: false }, Relocation { offset: 1, addend: 3, symbol: 2, kind: TlsGdGotBase, thunkable: false }, Relocation { offset: 1, addend: 3, symbol: 2, kind: TlsDesc, thunkable: false }, Relocation { offset: 1, addend: 3, symbol: 2, kind: TlsDescLoongArch64, thunkable: false }, Relocation { offset: 1, addend: 3, symbol: 2, kind: TlsDescGot, thunkable: false }, Relocation { offset: 1, addend: 3, symbol: 2, kind: TlsDescGotBase, thunkable: false }, Relocation { offset: 1, addend: 3, symbol: 2, kind: TlsDescCall, thunkable: false }, Relocation { offset: 1, addend: 3, symbol: 2, kind: TlsLd, thunkable: false }, Relocation { offset: 1, addend: 3, symbol: 2, kind: TlsLdGot, thunkable: false }, Relocation { offset: 1, addend: 3, symbol: 2, kind: TlsLdGotBase, thunkable: false }, Relocation { offset: 1, addend: 3, symbol: 2, kind: Absolute, thunkable: false }, Relocation { offset: 1, addend: 3, symbol: 2, kind: AbsoluteSet, thunkable: false }, Relocation { offset: 1, addend: 3, symbol: 2, kind: AbsoluteSetWord6, thunkable: false }, Relocation { offset: 1, addend: 3, symbol: 2, kind: AbsoluteAddition, thunkable: false }, Relocation { offset: 1, addend: 3, symbol: 2, kind: AbsoluteAdditionWord6, thunkable: false }, Relocation { offset: 1, addend: 3, symbol: 2, kind: AbsoluteSubtraction, thunkable: false }, Relocation { offset: 1, addend: 3, symbol: 2, kind: AbsoluteSubtractionWord6, thunkable: false }, Relocation { offset: 1, addend: 3, symbol: 2, kind: AbsoluteLowPart, thunkable: false }, Relocation { offset: 1, addend: 3, symbol: 2, kind: Relative, thunkable: false }, Relocation { offset: 1, addend: 3, symbol: 2, kind: RelativeRiscVLow12, thunkable: false }, Relocation { offset: 1, addend: 3, symbol: 2, kind: RelativeLoongArchHigh, thunkable: false }, Relocation { offset: 1, addend: 3, symbol: 2, kind: DtpOff, thunkable: false }, Relocation { offset: 1, addend: 3, symbol: 2, kind: TpOff, thunkable: false }, Relocation { offset: 1, addend: 3, symbol: 2, kind: SymRelGotBase, thunkable: false }, Relocation { offset: 1, addend: 3, symbol: 2, kind: PairSubtractionULEB128RiscV, thunkable: false }, Relocation { offset: 1, addend: 3, symbol: 2, kind: PairSubtractionULEB128LoongArch, thunkable: false }, Relocation { offset: 1, addend: 3, symbol: 2, kind: MachoSubtraction, thunkable: false }, Relocation { offset: 1, addend: 3, symbol: 2, kind: SymbolSize, thunkable: false }, Relocation { offset: 1, addend: 3, symbol: 2, kind: None, thunkable: false }, Relocation { offset: 1, addend: 3, symbol: 2, kind: Alignment, thunkable: false }, Relocation { offset: 1, addend: 3, symbol: 2, kind: MachoAddition, thunkable: false }], [])
"#;

#[test]
fn options_are_read(rt: HostRuntime) -> Result<(), Fail> {
    expect_rows(&rt, rt.alloc(), Asked::Of(Shown::Options), OPTIONS)
}

#[test]
fn plans_are_read(rt: HostRuntime) -> Result<(), Fail> {
    expect_rows(&rt, rt.alloc(), Asked::Of(Shown::Plan), PLANS)
}

#[test]
fn groups_are_read(rt: HostRuntime) -> Result<(), Fail> {
    expect_rows(&rt, rt.alloc(), Asked::Of(Shown::Groups), GROUPS)
}
