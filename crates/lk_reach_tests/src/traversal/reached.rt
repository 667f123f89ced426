//! The traversal by itself: what roots and units ask for, what is reached, and what that makes of sections and symbols.

ghost use Rattle.lk_link.specs.WellFormed.{IsWellFormed};

use crate::rows::{Asked, expect_rows};
use crate::traversal::OfTraversal;
use lk_check::check_link;
use lk_link::{FileId, FileRef, LinkInput, SymbolId};
use lk_live::{GcError, Live, Unit, file_roots, primary_references, successors, traverse_alone};
use lk_test_rows::add;
use std::alloc::{AllocError, Global};
use std::test::Fail;

/// What the prelude and an object ask for, and what the object's symbols and sections do.
const ASKS: &str = r#"
{"options":{"entry":1},"plan":{"page":16,"sections":[{"attrs":1,"parts":[[1,false]]}],"events":[["sec",0]]},"groups":[[{"kind":"prelude"}],[{"kind":"object","symbols":[{"at":["sec",1,0]},{"at":["undef"],"def":0}],"sections":[{"slot":"must","size":4,"relocs":[[0,"Absolute",1,0,true],[0,"None",0,0,true],[0,"SymbolSize",0,0,false]]},{"slot":"unloaded"}]}]]} => root Reference(SymbolId { number: 0 }, ValueFlags(64)) root Section(FileId { group: 1, file: 0 }, 0) ask Section(FileId { group: 1, file: 0 }, 1) ask Reference(SymbolId { number: 0 }, ValueFlags(64)) ask Reference(SymbolId { number: 0 }, ValueFlags(4096))
"#;

/// What becomes of each section, the flags of each symbol, and which symbols of the primary part are named by others; or the
/// references that can't be met.
const REACHED: &str = r#"
# An output section.
@ {"plan":{"page":16,"sections":[{"attrs":1,"parts":[[1,false]]}],"events":[["sec",0]]},"groups":[[{"kind":"prelude"}],...}
[{"kind":"object","symbols":[{"at":["sec",1,0]}],"sections":[{"slot":"must","size":4,"relocs":[[0,"Absolute",0,0,false]]},{"slot":"unloaded","size":2},{"slot":"unloaded","size":1}]}]] => slot Some(Loaded(Section { size: 4 })) slot Some(Loaded(Section { size: 2 })) slot Some(Unloaded(UnloadedSection { needs_sorting: false })) flags 64 primary [false]
[{"kind":"object","symbols":[{"at":["sec",1,0]}],"sections":[{"slot":"must","size":4,"relocs":[[0,"Absolute",0,0,false]]},{"slot":"unloaded","size":2},{"slot":"unloaded","size":1}]}]],"options":{"gc":false} => slot Some(Loaded(Section { size: 4 })) slot Some(Loaded(Section { size: 2 })) slot Some(Loaded(Section { size: 1 })) flags 64 primary [false]
[{"kind":"object","symbols":[{"at":["sec",0,0]},{"at":["sec",1,1]}],"sections":[{"slot":"unloaded","size":3,"relocs":[[0,"Absolute",1,0,false]]},{"slot":"unloaded","size":5,"relocs":[[0,"Absolute",0,0,false]]}]}]] => slot Some(Unloaded(UnloadedSection { needs_sorting: false })) slot Some(Unloaded(UnloadedSection { needs_sorting: false })) flags 0 flags 0 primary [false, false]
[{"kind":"object","symbols":[{"at":["sec",0,0]},{"at":["sec",1,1]}],"sections":[{"slot":"must","size":3,"relocs":[[0,"Absolute",1,0,false]]},{"slot":"unloaded","size":5,"relocs":[[0,"Absolute",0,0,false]]}]}]] => slot Some(Loaded(Section { size: 3 })) slot Some(Loaded(Section { size: 5 })) flags 64 flags 64 primary [false, false]
[{"kind":"object","symbols":[{"at":["sec",0,0]},{"at":["sec",1,1]}],"sections":[{"slot":"unloaded","size":3,"relocs":[[0,"Absolute",1,0,false]]},{"slot":"unloaded","size":5,"relocs":[[0,"Absolute",0,0,false]]}]}]],"options":{"gc":false} => slot Some(Loaded(Section { size: 3 })) slot Some(Loaded(Section { size: 5 })) flags 64 flags 64 primary [false, false]
[{"kind":"object","symbols":[{"at":["sec",0,0]},{"at":["sec",1,1]}],"sections":[{"slot":"unloaded","size":3,"relocs":[[0,"Absolute",1,0,false]]},{"slot":"unloaded","size":5,"relocs":[[0,"Absolute",0,0,false]]}]}]],"options":{"entry":1} => slot Some(Loaded(Section { size: 3 })) slot Some(Loaded(Section { size: 5 })) flags 64 flags 64 primary [false, false]
[{"kind":"object","symbols":[{"at":["undef"],"def":1}],"sections":[{"slot":"must","size":2,"relocs":[[1,"Absolute",0,0,false]]}]},{"kind":"object","symbols":[{"at":["sec",0,0]},{"at":["sec",1,0],"flags":32}],"sections":[{"slot":"unloaded","size":3,"relocs":[[0,"Absolute",1,0,false]]},{"slot":"unloaded","size":5,"relocs":[[0,"Absolute",0,0,false]]}]}]] => slot Some(Loaded(Section { size: 2 })) slot Some(Loaded(Section { size: 3 })) slot Some(Loaded(Section { size: 5 })) flags 0 flags 64 flags 96 primary [false, false, false]
[{"kind":"object","symbols":[{"at":["sec",1,0]},{"at":["sec",2,0]}],"sections":[{"slot":"mustdebug","size":1,"relocs":[[0,"Absolute",0,0,false]]},{"slot":"unloaded","size":2},{"slot":"debug","size":3},{"slot":"merge","data":"00"},{"slot":"discard"},{"slot":"must","size":4,"sorted":true},{"slot":"unloaded","sorted":true}]}]] => slot Some(LoadedDebugInfo(Section { size: 1 })) slot Some(Unloaded(UnloadedSection { needs_sorting: false })) slot Some(UnloadedDebugInfo { must_load: false }) slot Some(MergeStrings) slot Some(Discard) slot Some(Sorted(Section { size: 4 })) slot Some(Unloaded(UnloadedSection { needs_sorting: true })) flags 0 flags 0 primary [false, false]
[{"kind":"object","symbols":[{"at":["sec",1,0]}],"sections":[{"slot":"must","size":1,"relocs":[[0,"Absolute",0,0,false]]},{"slot":"discard","size":1}]}],[{"kind":"object","symbols":[{"at":["sec",0,0]},{"at":["undef"]}],"sections":[{"slot":"discard","size":1},{"slot":"must","size":2,"relocs":[[0,"Absolute",0,0,false]]}]}],[{"kind":"object","symbols":[{"at":["undef"]}],"sections":[{"slot":"must","size":2,"relocs":[[0,"Absolute",0,0,false]]}]}]] => faults [Discarded(FileId { group: 1, file: 0 }, 1), Discarded(FileId { group: 2, file: 0 }, 0), Undefined(SymbolId { number: 3 }, FileId { group: 3, file: 0 }, 0, 0)]
[{"kind":"object","symbols":[{"at":["sec",0,1]}],"sections":[{"slot":"discard","size":1,"part":4294967295}]}]],"options":{"entry":0} => faults [Discarded(FileId { group: 1, file: 0 }, 0)]
[{"kind":"object","sections":[{"slot":"debug","size":3},{"slot":"mustdebug"}]}]],"options":{"gc":false} => slot Some(LoadedDebugInfo(Section { size: 3 })) slot Some(LoadedDebugInfo(Section { size: 0 })) primary []
# Section groups: debug data keeps code of its group and follows no relocation; merge data keep nothing; each slot in one group; a group of one.
[{"kind":"object","symbols":[{"at":["sec",2,0]}],"sections":[{"slot":"mustdebug","size":1,"group":0,"relocs":[[0,"Absolute",0,0,false]]},{"slot":"unloaded","size":2,"group":0},{"slot":"unloaded","size":3}]}]] => slot Some(LoadedDebugInfo(Section { size: 1 })) slot Some(Loaded(Section { size: 2 })) slot Some(Unloaded(UnloadedSection { needs_sorting: false })) flags 0 primary [false]
[{"kind":"object","symbols":[{"at":["sec",1,0]}],"sections":[{"slot":"must","size":4,"relocs":[[0,"Absolute",0,0,false]]},{"slot":"merge","data":"00","group":0},{"slot":"unloaded","size":3,"group":0}]}]] => slot Some(Loaded(Section { size: 4 })) slot Some(MergeStrings) slot Some(Unloaded(UnloadedSection { needs_sorting: false })) flags 64 primary [false]
[{"kind":"object","sections":[{"slot":"must","size":1,"group":7},{"slot":"unloaded","size":2,"group":7},{"slot":"debug","size":3,"group":7},{"slot":"mustdebug","size":4,"group":7},{"slot":"merge","data":"00","group":7},{"slot":"discard","group":7},{"slot":"unloaded","size":5,"group":8}]}]] => slot Some(Loaded(Section { size: 1 })) slot Some(Loaded(Section { size: 2 })) slot Some(LoadedDebugInfo(Section { size: 3 })) slot Some(LoadedDebugInfo(Section { size: 4 })) slot Some(MergeStrings) slot Some(Discard) slot Some(Unloaded(UnloadedSection { needs_sorting: false })) primary []
[{"kind":"object","sections":[{"slot":"must","size":1,"group":8}]}]] => slot Some(Loaded(Section { size: 1 })) primary []
# Candidates: with what refers to the start of their output section, and without; for several symbols of one file; of another output section none.
[{"kind":"object","symbols":[{"at":["undef"],"def":1}],"sections":[{"slot":"must","size":4,"relocs":[[0,"Relative",0,0,false]]},{"slot":"unloaded","size":2}]}],[{"kind":"synthetic","symbols":[{"at":["start",0]}],"candidates":[[0,1,0,1]]}]] => slot Some(Loaded(Section { size: 4 })) slot Some(Loaded(Section { size: 2 })) flags 0 flags 64 primary [false, false]
[{"kind":"object","symbols":[{"at":["undef"],"def":1}],"sections":[{"slot":"must","size":4},{"slot":"unloaded","size":2}]}],[{"kind":"synthetic","symbols":[{"at":["start",0]}],"candidates":[[0,1,0,1]]}]] => slot Some(Loaded(Section { size: 4 })) slot Some(Unloaded(UnloadedSection { needs_sorting: false })) flags 0 flags 0 primary [false, false]
[{"kind":"object","sections":[{"slot":"unloaded","size":2},{"slot":"unloaded","size":3}]}],[{"kind":"synthetic","symbols":[{"at":["end",0]},{"at":["groupend",0]},{"at":["loadbase"]}],"candidates":[[0,1,0,0],[0,1,0,1]]}],[{"kind":"object","symbols":[{"at":["undef"],"def":0},{"at":["undef"],"def":1}],"sections":[{"slot":"must","size":4,"relocs":[[0,"Absolute",0,0,false],[1,"Absolute",1,0,false]]}]}]] => slot Some(Loaded(Section { size: 2 })) slot Some(Loaded(Section { size: 3 })) slot Some(Loaded(Section { size: 4 })) flags 64 flags 64 flags 0 flags 0 flags 0 primary [false, false, false, false, false]
[{"kind":"object","sections":[{"slot":"unloaded","size":2}]}],[{"kind":"synthetic","symbols":[{"at":["loadbase"]}],"candidates":[[0,1,0,0]]}],[{"kind":"object","symbols":[{"at":["undef"],"def":0}],"sections":[{"slot":"must","size":4,"relocs":[[0,"Absolute",0,0,false]]}]}]] => slot Some(Unloaded(UnloadedSection { needs_sorting: false })) slot Some(Loaded(Section { size: 4 })) flags 64 flags 0 primary [false, false]
# Candidates that are merged, debug data or kept in any case, asked for and not; one that is discarded, told once for two that ask.
[{"kind":"object","symbols":[{"at":["undef"],"def":1}],"sections":[{"slot":"must","size":4,"relocs":[[0,"Absolute",0,0,false]]},{"slot":"merge","data":"00"},{"slot":"debug","size":3},{"slot":"mustdebug","size":1},{"slot":"must","size":5}]}],[{"kind":"synthetic","symbols":[{"at":["end",0]}],"candidates":[[0,1,0,1],[0,1,0,2],[0,1,0,3],[0,1,0,4]]}]] => slot Some(Loaded(Section { size: 4 })) slot Some(MergeStrings) slot Some(LoadedDebugInfo(Section { size: 3 })) slot Some(LoadedDebugInfo(Section { size: 1 })) slot Some(Loaded(Section { size: 5 })) flags 0 flags 64 primary [false, false]
[{"kind":"object","symbols":[{"at":["undef"],"def":1}],"sections":[{"slot":"must","size":4},{"slot":"merge","data":"00"},{"slot":"debug","size":3},{"slot":"mustdebug","size":1},{"slot":"must","size":5}]}],[{"kind":"synthetic","symbols":[{"at":["end",0]}],"candidates":[[0,1,0,1],[0,1,0,2],[0,1,0,3],[0,1,0,4]]}]] => slot Some(Loaded(Section { size: 4 })) slot Some(MergeStrings) slot Some(UnloadedDebugInfo { must_load: false }) slot Some(LoadedDebugInfo(Section { size: 1 })) slot Some(Loaded(Section { size: 5 })) flags 0 flags 0 primary [false, false]
[{"kind":"object","symbols":[{"at":["undef"],"def":2},{"at":["undef"],"def":3}],"sections":[{"slot":"must","size":4,"relocs":[[0,"Absolute",0,0,false],[1,"Absolute",1,0,false]]},{"slot":"discard"}]}],[{"kind":"synthetic","symbols":[{"at":["start",0]},{"at":["end",0]}],"candidates":[[0,1,0,1]]}]] => faults [Discarded(FileId { group: 1, file: 0 }, 1)]
# Scripts: hidden and unnamed symbols have no flags, others are exported; a redirect refers to itself and its symbols, and keeps the output section of its location counter; one that only provides is none of it, unless it is wanted.
[{"kind":"script","symbols":[{"at":["start",0],"name":"a","hidden":true},{"at":["start",0],"name":"b"},{"at":["start",0]},{"at":["redirect",["sym",0],["end",0],true],"name":"c"}]}]] => flags 0 flags 8192 flags 0 flags 0 primary [false, false, false, false]
[{"kind":"script","symbols":[{"at":["start",0],"name":"a","hidden":true},{"at":["redirect",["sym",0],["end",0],false],"name":"c"}]}]] => flags 64 flags 8256 primary [false, false]
[{"kind":"script","symbols":[{"at":["redirect",["sym",0],["start",0],false]}]}]] => flags 64 primary [false]
[{"kind":"script","symbols":[{"at":["redirect",["num",1],["counter",0],true],"name":"p"}]}],[{"kind":"dynamic","symbols":[{"at":["undef"],"def":0}]}]] => flags 8256 flags 0 primary [false, false]
[{"kind":"object","sections":[{"slot":"must"}]}]] => slot Some(Loaded(Section { size: 0 })) primary []
# One that is undefined is exported by its name; one that only provides, for itself, is what a dynamic file asks for.
[{"kind":"script","symbols":[{"at":["undefined"],"name":"u"},{"at":["undefined"],"name":"h","hidden":true},{"at":["redirect",["sym",2],["none"],true],"name":"s"}]}],[{"kind":"dynamic","symbols":[{"at":["undef"],"def":2}]}]] => flags 8192 flags 0 flags 8256 flags 0 primary [false, false, false, false]
# Exports: of shared output all that can be; not out of archives, unless all are asked for; those of a list; none where the list is restrictive and empty.
[{"kind":"object","symbols":[{"at":["sec",0,0],"name":"g"},{"at":["sec",0,0],"name":"h","hidden":true},{"at":["sec",0,0],"name":"l","local":true},{"at":["sec",0,0],"name":"d","flags":8},{"at":["undef"],"name":"u"},{"at":["sec",1,0],"name":"x"},{"at":["sec",0,0],"name":"k"}],"sections":[{"slot":"unloaded","size":2},{"slot":"discard"}]}]],"options":{"output":"shared"} => slot Some(Loaded(Section { size: 2 })) slot Some(Discard) flags 8192 flags 0 flags 0 flags 8 flags 0 flags 0 flags 8192 primary [false, false, false, false, false, false, false]
[{"kind":"object","archive":true,"symbols":[{"at":["sec",0,0],"name":"g"},{"at":["sec",0,0],"name":"h","hidden":true},{"at":["sec",0,0],"name":"l","local":true},{"at":["sec",0,0],"name":"d","flags":8},{"at":["undef"],"name":"u"},{"at":["sec",1,0],"name":"x"},{"at":["sec",0,0],"name":"k"}],"sections":[{"slot":"unloaded","size":2},{"slot":"discard"}]}]],"options":{"output":"shared"} => slot Some(Unloaded(UnloadedSection { needs_sorting: false })) slot Some(Discard) flags 0 flags 0 flags 0 flags 8 flags 0 flags 0 flags 0 primary [false, false, false, false, false, false, false]
[{"kind":"object","archive":true,"export":true,"symbols":[{"at":["sec",0,0],"name":"g"},{"at":["sec",0,0],"name":"h","hidden":true},{"at":["sec",0,0],"name":"l","local":true},{"at":["sec",0,0],"name":"d","flags":8},{"at":["undef"],"name":"u"},{"at":["sec",1,0],"name":"x"},{"at":["sec",0,0],"name":"k"}],"sections":[{"slot":"unloaded","size":2},{"slot":"discard"}]}]],"options":{"output":"shared"} => slot Some(Loaded(Section { size: 2 })) slot Some(Discard) flags 8192 flags 0 flags 0 flags 8 flags 0 flags 0 flags 8192 primary [false, false, false, false, false, false, false]
[{"kind":"object","archive":true,"symbols":[{"at":["sec",0,0],"name":"g"},{"at":["sec",0,0],"name":"h","hidden":true},{"at":["sec",0,0],"name":"l","local":true},{"at":["sec",0,0],"name":"d","flags":8},{"at":["undef"],"name":"u"},{"at":["sec",1,0],"name":"x"},{"at":["sec",0,0],"name":"k"}],"sections":[{"slot":"unloaded","size":2},{"slot":"discard"}]}]],"options":{"output":"shared","export_all":true} => slot Some(Loaded(Section { size: 2 })) slot Some(Discard) flags 8192 flags 0 flags 0 flags 8 flags 0 flags 0 flags 8192 primary [false, false, false, false, false, false, false]
[{"kind":"object","symbols":[{"at":["sec",0,0],"name":"g"},{"at":["sec",0,0],"name":"h","hidden":true},{"at":["sec",0,0],"name":"l","local":true},{"at":["sec",0,0],"name":"d","flags":8},{"at":["undef"],"name":"u"},{"at":["sec",1,0],"name":"x"},{"at":["sec",0,0],"name":"k"}],"sections":[{"slot":"unloaded","size":2},{"slot":"discard"}]}]],"options":{"output":"dynamic","export_list":["k","u"]} => slot Some(Loaded(Section { size: 2 })) slot Some(Discard) flags 0 flags 0 flags 0 flags 8 flags 0 flags 0 flags 8192 primary [false, false, false, false, false, false, false]
[{"kind":"object","symbols":[{"at":["sec",0,0],"name":"g"},{"at":["sec",0,0],"name":"h","hidden":true},{"at":["sec",0,0],"name":"l","local":true},{"at":["sec",0,0],"name":"d","flags":8},{"at":["undef"],"name":"u"},{"at":["sec",1,0],"name":"x"},{"at":["sec",0,0],"name":"k"}],"sections":[{"slot":"unloaded","size":2},{"slot":"discard"}]}]],"options":{"output":"dynamic"} => slot Some(Unloaded(UnloadedSection { needs_sorting: false })) slot Some(Discard) flags 0 flags 0 flags 0 flags 8 flags 0 flags 0 flags 0 primary [false, false, false, false, false, false, false]
[{"kind":"object","symbols":[{"at":["sec",0,0],"name":"g"},{"at":["sec",0,0],"name":"h","hidden":true},{"at":["sec",0,0],"name":"l","local":true},{"at":["sec",0,0],"name":"d","flags":8},{"at":["undef"],"name":"u"},{"at":["sec",1,0],"name":"x"},{"at":["sec",0,0],"name":"k"}],"sections":[{"slot":"unloaded","size":2},{"slot":"discard"}]}]],"options":{"output":"static","export_all":true} => slot Some(Unloaded(UnloadedSection { needs_sorting: false })) slot Some(Discard) flags 0 flags 0 flags 0 flags 8 flags 0 flags 0 flags 0 primary [false, false, false, false, false, false, false]
[{"kind":"object","symbols":[{"at":["sec",0,0],"name":"g"},{"at":["sec",0,0],"name":"h","hidden":true},{"at":["sec",0,0],"name":"l","local":true},{"at":["sec",0,0],"name":"d","flags":8},{"at":["undef"],"name":"u"},{"at":["sec",1,0],"name":"x"},{"at":["sec",0,0],"name":"k"}],"sections":[{"slot":"unloaded","size":2},{"slot":"discard"}]}]],"options":{"output":"shared","export_list":["g"]} => slot Some(Loaded(Section { size: 2 })) slot Some(Discard) flags 8192 flags 0 flags 0 flags 8 flags 0 flags 0 flags 8192 primary [false, false, false, false, false, false, false]
[{"kind":"object","symbols":[{"at":["sec",0,0],"name":"g"},{"at":["sec",0,0],"name":"h","hidden":true},{"at":["sec",0,0],"name":"l","local":true},{"at":["sec",0,0],"name":"d","flags":8},{"at":["undef"],"name":"u"},{"at":["sec",1,0],"name":"x"},{"at":["sec",0,0],"name":"k"}],"sections":[{"slot":"unloaded","size":2},{"slot":"discard"}]}]],"options":{"output":"shared","export_list":["g"],"restrictive":true} => slot Some(Loaded(Section { size: 2 })) slot Some(Discard) flags 8192 flags 0 flags 0 flags 8 flags 0 flags 0 flags 0 primary [false, false, false, false, false, false, false]
# Dynamic files: a definition that they need is exported; symbols that are undefined are at fault where they are looked at.
[{"kind":"object","symbols":[{"at":["sec",0,0],"name":"g"},{"at":["sec",0,0],"name":"h","hidden":true}],"sections":[{"slot":"unloaded","size":2}]}],[{"kind":"dynamic","symbols":[{"at":["undef"],"def":0},{"at":["undef"],"def":1},{"at":["dyn"]}]}]] => slot Some(Loaded(Section { size: 2 })) flags 8192 flags 0 flags 0 flags 0 flags 0 primary [false, false, false, false, false]
[{"kind":"dynamic","check":true,"symbols":[{"at":["undef"]},{"at":["undef"],"weak":true},{"at":["dyn"]}]}]] => faults [UndefinedDynamic(SymbolId { number: 0 }, FileId { group: 1, file: 0 })]
[{"kind":"dynamic","check":true,"symbols":[{"at":["undef"]}]}]],"options":{"error_dynamics":false} => flags 0 primary [false]
[{"kind":"dynamic","symbols":[{"at":["undef"]}]}]] => flags 0 primary [false]
[{"kind":"notloaded","symbols":[{"at":["dyn"],"name":"n"}]}],[{"kind":"object","symbols":[{"at":["undef"],"def":0}],"sections":[{"slot":"must","size":4,"relocs":[[0,"Absolute",0,0,false]]}]}]] => slot Some(Loaded(Section { size: 4 })) flags 64 flags 0 primary [false, false]
# Names that are in the list, and those of hidden, local and downgraded symbols, of undefined ones and of ones that are discarded; a weak one.
@ {"plan":{"page":16,"sections":[{"attrs":1,"parts":[[1,false]]}],"events":[["sec",0]]},"groups":[[{"kind":"prelude"}],[{"kind":"object","symbols":[{"at":["sec",0,0],"name":"g"},{"at":["sec",0,0],"name":"h","hidden":true},{"at":["sec",0,0],"name":"l","local":true},{"at":["sec",0,0],"name":"d","flags":8},{"at":["undef"],"name":"u"},{"at":["sec",1,0],"name":"x"},{"at":["sec",0,0],"name":"w","weak":true}],"sections":[{"slot":"unloaded","size":2},{"slot":"discard"}]}]],"options":{...}}
"output":"shared" | "output":"shared","export_list":[] | "output":"dynamic","export_all":true | "output":"dynamic","export_list":["g","h","l","d","u","x","w"] | "output":"shared","export_list":["g","h","l","d","u","x","w"],"restrictive":true => slot Some(Loaded(Section { size: 2 })) slot Some(Discard) flags 8192 flags 0 flags 0 flags 8 flags 0 flags 0 flags 8192 primary [false, false, false, false, false, false, false]
"output":"shared","export_list":[],"restrictive":true | "output":"dynamic","export_list":[] | "output":"dynamic","export_list":["h","l","d","u","x"] | "output":"static","export_list":["g"] | "output":"partial","export_all":true => slot Some(Unloaded(UnloadedSection { needs_sorting: false })) slot Some(Discard) flags 0 flags 0 flags 0 flags 8 flags 0 flags 0 flags 0 primary [false, false, false, false, false, false, false]
@ {"plan":{"page":16,"sections":[{"attrs":1,"parts":[[1,false]]}],"events":[["sec",0]]},"groups":[[{"kind":"prelude"}],[{"kind":"object","archive":true,"symbols":[{"at":["sec",0,0],"name":"g"},{"at":["sec",1,0],"name":"w","weak":true}],"sections":[{"slot":"unloaded","size":2},{"slot":"unloaded","size":3}]}]],"options":{...}}
"output":"shared","export_list":["w"] | "output":"dynamic","export_list":["w"] | "output":"shared","export_all":true,"export_list":["w"],"restrictive":true => slot Some(Unloaded(UnloadedSection { needs_sorting: false })) slot Some(Loaded(Section { size: 3 })) flags 0 flags 8192 primary [false, false]
"output":"shared","export_all":true,"export_list":["w"] => slot Some(Loaded(Section { size: 2 })) slot Some(Loaded(Section { size: 3 })) flags 8192 flags 8192 primary [false, false]
# Two, of which the first is the primary part: its relocations mark their own symbols, and those of the second name one of it.
@ {"plan":{"page":16,"sections":[{"attrs":5,"parts":[[1,false]]},{"attrs":1,"parts":[[1,false]]}],"events":[["sec",0],["sec",1]],"primary":0},"options":{"branch_range":4194304},"groups":[[{"kind":"prelude"}],...}
[{"kind":"object","symbols":[{"at":["sec",0,0]},{"at":["sec",1,0]},{"at":["undef"],"def":0}],"sections":[{"slot":"must","size":4,"attrs":4,"relocs":[[0,"Relative",0,0,true],[0,"Relative",1,0,true],[0,"None",2,0,true]]},{"slot":"must","part":1,"size":4,"relocs":[[0,"Relative",2,0,true],[0,"Relative",1,0,true]]}]}]] => slot Some(Loaded(Section { size: 4 })) slot Some(Loaded(Section { size: 4 })) flags 16448 flags 16448 flags 16384 primary [true, false, false]
# A symbol of the prelude that is wanted all the same, a redirect of its own, and a location that names a symbol, for which two scripts ask.
@ {"plan":{"page":16,"sections":[{"attrs":1,"parts":[[1,false]]}],"events":[["loc",["sym",3]],["sec",0]]},"groups":[[{"kind":"prelude","symbols":[{"at":["force"],"def":2},{"at":["redirect",["sym",4],["start",0],true]}]}],...}
[{"kind":"object","symbols":[{"at":["sec",0,0]},{"at":["sec",1,0]},{"at":["sec",2,0]}],"sections":[{"slot":"unloaded","size":2},{"slot":"unloaded","size":3},{"slot":"unloaded","size":4}]},{"kind":"script"},{"kind":"script"}]] => slot Some(Loaded(Section { size: 2 })) slot Some(Loaded(Section { size: 3 })) slot Some(Loaded(Section { size: 4 })) flags 0 flags 64 flags 64 flags 64 flags 64 primary [false, false, false, false, false]
# A redirect of the prelude that stands for another asks for nothing, nor does one that is wanted all the same and defined nowhere.
@ {"plan":{"page":16,"sections":[{"attrs":1,"parts":[[1,false]]}],"events":[["sec",0]]},"groups":[[{"kind":"prelude","symbols":[{"at":["redirect",["sym",3],["none"],false],"def":1},{"at":["redirect",["num",1],["none"],true]},{"at":["force"]}]}],...}
[{"kind":"object","symbols":[{"at":["sec",0,0]}],"sections":[{"slot":"unloaded","size":2}]}]] => slot Some(Unloaded(UnloadedSection { needs_sorting: false })) flags 0 flags 64 flags 0 flags 0 primary [false, false, false, false]
# What a location is moved to asks, also behind the start of a section; the address of one section doesn't.
@ {"plan":{"page":16,"sections":[{"attrs":1,"parts":[[1,false]]}],"events":[["addr",["sym",1]],["sec",0],["locrel",["sym",0],0]]},"groups":[[{"kind":"prelude"}],...}
[{"kind":"object","symbols":[{"at":["sec",0,0]},{"at":["sec",1,0]}],"sections":[{"slot":"unloaded","size":2},{"slot":"unloaded","size":3}]},{"kind":"script"}]] => slot Some(Loaded(Section { size: 2 })) slot Some(Unloaded(UnloadedSection { needs_sorting: false })) flags 64 flags 0 primary [false, false]
"#;

/// The object that is looked at.
const OBJECT: FileId = FileId { group: 1, file: 0 };

/// Adds what a file asks for by itself.
fn add_roots(line: &mut String, link: &LinkInput, id: FileId) -> Result<(), AllocError>
    requires { IsWellFormed link.now }
{
    if let Some(file) = link.groups.file(id) {
        for ask in file_roots(link, FileRef { id, file }) {
            add(line, "root", &ask)?;
        }
    }
    Ok(())
}

/// Adds what a unit asks for.
fn add_successors(line: &mut String, link: &LinkInput, unit: Unit) -> Result<(), AllocError>
    requires { IsWellFormed link.now }
{
    for ask in successors(link, unit) {
        add(line, "ask", &ask)?;
    }
    Ok(())
}

/// Adds what the first two symbols and the object's first two sections ask for.
fn add_units(line: &mut String, link: &LinkInput) -> Result<(), AllocError>
    requires { IsWellFormed link.now }
{
    for number in 0..2 {
        add_successors(line, link, Unit::Sym(SymbolId::from_u32(number)))?;
    }
    for index in 0..2 {
        add_successors(line, link, Unit::Sec(OBJECT, index))?;
    }
    Ok(())
}

/// Adds what the prelude and the object ask for, and what units do, of a link that is well formed.
pub fn add_asks(line: &mut String, link: &LinkInput) -> Result<(), AllocError> {
    if check_link(link).is_err() {
        return Ok(());
    }
    add_roots(line, link, FileId { group: 0, file: 0 })?;
    add_roots(line, link, OBJECT)?;
    add_units(line, link)
}

/// Adds what became of each section of groups and files that aren't too many.
fn add_slots(line: &mut String, link: &LinkInput, live: &Live) -> Result<(), AllocError>
    requires { IsWellFormed link.now }
{
    if link.groups.len() <= 65535 && link.groups.file_count() <= 16777216 {
        for input in link.groups.inputs() {
            add(line, "slot", &live.slot(link, input.file, input.index))?;
        }
    }
    Ok(())
}

/// Adds the flags of each symbol.
fn add_flags(line: &mut String, live: &Live) -> Result<(), AllocError> {
    for flags in live.flags.as_slice() {
        add(line, "flags", &flags.0)?;
    }
    Ok(())
}

/// Adds what became of sections and symbols.
fn add_kept(
    alloc: Global,
    line: &mut String,
    link: &LinkInput,
    live: &Live,
) -> Result<(), AllocError>
    requires { IsWellFormed link.now }
{
    add_slots(line, link, live)?;
    add_flags(line, live)?;
    add(line, "primary", &primary_references(alloc, link, live)?)
}

/// Adds what a traversal finds, of a link that is well formed.
pub fn add_reached(alloc: Global, line: &mut String, link: &LinkInput) -> Result<(), AllocError> {
    if check_link(link).is_err() {
        return Ok(());
    }
    match traverse_alone(alloc, link) {
        Ok(live) => add_kept(alloc, line, link, &live),
        Err(GcError::References(faults)) => add(line, "faults", &faults.as_slice()),
        Err(GcError::NoMemory) => Err(AllocError),
    }
}

#[test]
fn roots_and_units_ask(rt: HostRuntime) -> Result<(), Fail> {
    expect_rows(&rt, rt.alloc(), Asked::Traversal(OfTraversal::Asks), ASKS)
}

#[test]
fn what_is_asked_for_is_reached(rt: HostRuntime) -> Result<(), Fail> {
    expect_rows(
        &rt,
        rt.alloc(),
        Asked::Traversal(OfTraversal::Reached),
        REACHED,
    )
}
