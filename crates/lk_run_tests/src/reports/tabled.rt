//! Layouts with tables: entries of symbols, headers, names and the identity.

use crate::rows::{Asked, expect_rows};
use crate::runs::expect_reports;
use std::test::Fail;

/// Descriptions with their reports.
const TABLED: &str = r#"# A jump and a thread-local offset of one symbol: 16 bytes in each part.
{"plan":{"page":16,"sections":[{"attrs":1,"parts":[[16,false],[8,false],[1,false]]}],"segments":[{"kind":"load"}],"events":[["seg",0],["sec",0],["endseg",0]],"plt":0,"got":1},"groups":[[{"kind":"prelude"}],[{"kind":"object","symbols":[{"at":["sec",0,0],"name":"f"}],"sections":[{"slot":"must","part":2,"size":4,"relocs":[[0,"PltRelative",0,0,false],[0,"GotTpOff",0,0,false]]}]}]]}
0 layout
section 0 index 0 mem 0x0 36 file 0x0 36 align 16 lma 0x0 attrs 1
part 0 mem 0x0 16 file 0x0 16 align 16
part 1 mem 0x10 16 file 0x10 16 align 8
part 2 mem 0x20 4 file 0x20 4 align 1
segment 0 mem 0x0 36 file 0x0 36 align 16
live 1 0 0 0x20 4
symbol 0 0x20 896 got 0x10 plt 0x0 dyn -
entry -
end

# Thread-local entries: 16 bytes for a module, 16 for a descriptor, and all that one symbol can take.
{"plan":{"page":16,"sections":[{"attrs":1,"parts":[[8,false],[1,false]]}],"segments":[{"kind":"load"}],"events":[["seg",0],["sec",0],["endseg",0]],"got":0},"groups":[[{"kind":"prelude"}],[{"kind":"object","symbols":[{"at":["sec",0,0],"name":"g"},{"at":["sec",0,1],"name":"d"},{"at":["sec",0,2],"name":"o"}],"sections":[{"slot":"must","part":1,"size":4,"relocs":[[0,"TlsGd",0,0,false],[0,"TlsDesc",1,0,false],[0,"GotTpOff",2,0,false],[0,"TlsGd",2,0,false],[0,"TlsDesc",2,0,false],[0,"Got",2,0,false]]}]}]]}
0 layout
section 0 index 0 mem 0x0 84 file 0x0 84 align 8 lma 0x0 attrs 1
part 0 mem 0x0 80 file 0x0 80 align 8
part 1 mem 0x50 4 file 0x50 4 align 1
segment 0 mem 0x0 84 file 0x0 84 align 8
live 1 0 0 0x50 4
symbol 0 0x50 1024 got 0x0 plt - dyn -
symbol 1 0x51 2048 got 0x10 plt - dyn -
symbol 2 0x52 3712 got 0x20 plt - dyn -
entry -
end

# All parts of tables in one link, and the identity.
{"options":{"output":"shared","identity":"demo 1.0"},"plan":{"page":4096,"sections":[{"name":".header","attrs":1,"parts":[[8,false]]},{"name":".headers","attrs":1,"parts":[[8,false]]},{"name":".dynsym","attrs":1,"parts":[[8,false]]},{"name":".dynstr","attrs":1,"parts":[[1,false]]},{"name":".plt","attrs":5,"parts":[[16,false]]},{"name":".text","attrs":5,"parts":[[4,false]]},{"name":".got","attrs":3,"parts":[[8,false]]},{"name":".comment","attrs":0,"parts":[[1,false]]},{"name":".symtab","attrs":0,"parts":[[8,false],[4,false]]},{"name":".strtab","attrs":0,"parts":[[1,false]]},{"name":".shstrtab","attrs":0,"parts":[[1,false]]},{"name":".sections","attrs":0,"parts":[[8,false]]}],"segments":[{"kind":"load"},{"kind":"load"},{"kind":"load"}],"events":[["seg",0],["sec",0],["sec",1],["sec",2],["sec",3],["endseg",0],["seg",1],["sec",4],["sec",5],["endseg",1],["seg",2],["sec",6],["endseg",2],["sec",7],["sec",8],["sec",9],["sec",10],["sec",11]],"file_header":0,"program_headers":1,"dynsym":2,"dynstr":3,"plt":4,"got":6,"comment":7,"symtab_local":8,"symtab_global":9,"strtab":10,"shstrtab":11,"section_headers":12},"groups":[[{"kind":"prelude"}],[{"kind":"object","name":"a.o","symbols":[{"name":"start","at":["sec",0,0]},{"name":"next","at":["sec",0,8]},{"name":"inner","at":["sec",0,16],"local":true}],"sections":[{"slot":"must","part":5,"size":20,"attrs":4,"relocs":[[0,"PltRelative",0,0,false],[4,"Got",1,0,false],[8,"Relative",2,0,false]]}]}]]}
0 layout
section 0 index - mem 0x0 64 file 0x0 64 align 8 lma 0x0 attrs 1
section 1 index - mem 0x40 168 file 0x40 168 align 8 lma 0x40 attrs 1
section 2 index 0 mem 0xe8 72 file 0xe8 72 align 8 lma 0xe8 attrs 1
section 3 index 1 mem 0x130 12 file 0x130 12 align 1 lma 0x130 attrs 1
section 4 index 2 mem 0x1140 16 file 0x140 16 align 16 lma 0x1140 attrs 5
section 5 index 3 mem 0x1150 20 file 0x150 20 align 4 lma 0x1150 attrs 5
section 6 index 4 mem 0x2168 16 file 0x168 16 align 8 lma 0x2168 attrs 3
section 7 index 5 mem 0x0 17 file 0x178 17 align 1 lma 0x0 attrs 0
section 8 index 6 mem 0x0 96 file 0x190 96 align 8 lma 0x0 attrs 0
section 9 index 7 mem 0x0 18 file 0x1f0 18 align 1 lma 0x0 attrs 0
section 10 index - mem 0x0 57 file 0x202 57 align 1 lma 0x0 attrs 0
section 11 index - mem 0x0 512 file 0x240 512 align 8 lma 0x0 attrs 0
part 0 mem 0x0 64 file 0x0 64 align 8
part 1 mem 0x40 168 file 0x40 168 align 8
part 2 mem 0xe8 72 file 0xe8 72 align 8
part 3 mem 0x130 12 file 0x130 12 align 1
part 4 mem 0x1140 16 file 0x140 16 align 16
part 5 mem 0x1150 20 file 0x150 20 align 4
part 6 mem 0x2168 16 file 0x168 16 align 8
part 7 mem 0x0 17 file 0x178 17 align 1
part 8 mem 0x0 48 file 0x190 48 align 8
part 9 mem 0x30 48 file 0x1c0 48 align 4
part 10 mem 0x0 18 file 0x1f0 18 align 1
part 11 mem 0x0 57 file 0x202 57 align 1
part 12 mem 0x0 512 file 0x240 512 align 8
segment 0 mem 0x0 316 file 0x0 316 align 8
segment 1 mem 0x1140 36 file 0x140 36 align 16
segment 2 mem 0x2168 16 file 0x168 16 align 8
live 1 0 0 0x1150 20
symbol 0 0x1150 8576 got 0x2168 plt 0x1140 dyn 1
symbol 1 0x1158 8320 got 0x2170 plt - dyn 2
symbol 2 0x1160 64 got - plt - dyn -
entry -
end

# Entries of two symbols stand in their order, a symbol that asks for none between them.
{"plan":{"page":16,"sections":[{"attrs":1,"parts":[[16,false],[8,false],[1,false]]}],"segments":[{"kind":"load"}],"events":[["seg",0],["sec",0],["endseg",0]],"plt":0,"got":1},"groups":[[{"kind":"prelude"}],[{"kind":"object","symbols":[{"at":["sec",0,0],"name":"f"},{"at":["sec",0,1]},{"at":["sec",0,2],"name":"h"}],"sections":[{"slot":"must","part":2,"size":4,"relocs":[[0,"GotRelative",0,0,false],[0,"Absolute",1,0,false],[0,"Got",2,0,false],[0,"PltRelative",2,0,false]]}]}]]}
0 layout
section 0 index 0 mem 0x0 36 file 0x0 36 align 16 lma 0x0 attrs 1
part 0 mem 0x0 16 file 0x0 16 align 16
part 1 mem 0x10 16 file 0x10 16 align 8
part 2 mem 0x20 4 file 0x20 4 align 1
segment 0 mem 0x0 36 file 0x0 36 align 16
live 1 0 0 0x20 4
symbol 0 0x20 128 got 0x10 plt - dyn -
symbol 1 0x21 64 got - plt - dyn -
symbol 2 0x22 384 got 0x18 plt 0x0 dyn -
entry -
end

# A shared object: two symbols that are exported.
{"options":{"output":"shared"},"plan":{"page":16,"sections":[{"attrs":1,"parts":[[8,false],[1,false]]},{"attrs":1,"parts":[[4,false]]}],"segments":[{"kind":"load"}],"events":[["seg",0],["sec",0],["sec",1],["endseg",0]],"dynsym":0,"dynstr":1},"groups":[[{"kind":"prelude"}],[{"kind":"object","symbols":[{"at":["sec",0,0],"name":"a"},{"at":["sec",0,0],"name":"bb"}],"sections":[{"slot":"must","part":2,"size":4}]}]]}
0 layout
section 0 index 0 mem 0x0 78 file 0x0 78 align 8 lma 0x0 attrs 1
section 1 index 1 mem 0x50 4 file 0x50 4 align 4 lma 0x50 attrs 1
part 0 mem 0x0 72 file 0x0 72 align 8
part 1 mem 0x48 6 file 0x48 6 align 1
part 2 mem 0x50 4 file 0x50 4 align 4
segment 0 mem 0x0 84 file 0x0 84 align 8
live 1 0 0 0x50 4
symbol 0 0x50 8192 got - plt - dyn 1
symbol 1 0x50 8192 got - plt - dyn 2
entry -
end

# Headers in front of a section, which they don't emit.
{"plan":{"page":4096,"base":["num",4096],"sections":[{"name":"H","attrs":1,"parts":[[8,false],[4,false]]},{"name":"A","attrs":1,"parts":[[8,false]]},{"name":"B","attrs":1,"parts":[[1,false]]},{"name":"C","attrs":17,"parts":[[16,false]]}],"segments":[{"kind":"load"}],"events":[["seg",0],["sec",0],["sec",1],["sec",2],["sec",3],["endseg",0]],"file_header":0,"program_headers":1},"groups":[[{"kind":"prelude"}],[{"kind":"object","sections":[{"slot":"must","part":2,"size":5},{"slot":"must","part":3,"size":7},{"slot":"must","part":4,"size":9}]}]]}
0 layout
section 0 index - mem 0x1000 120 file 0x0 120 align 8 lma 0x1000 attrs 1
section 1 index 0 mem 0x1078 8 file 0x78 8 align 8 lma 0x1078 attrs 1
section 2 index 1 mem 0x1080 7 file 0x80 7 align 1 lma 0x1080 attrs 1
section 3 index 2 mem 0x1090 16 file 0x87 0 align 16 lma 0x1090 attrs 17
part 0 mem 0x1000 64 file 0x0 64 align 8
part 1 mem 0x1040 56 file 0x40 56 align 4
part 2 mem 0x1078 8 file 0x78 8 align 8
part 3 mem 0x1080 7 file 0x80 7 align 1
part 4 mem 0x1090 16 file 0x87 0 align 16
segment 0 mem 0x1000 160 file 0x0 135 align 16
live 1 0 0 0x1078 5
live 1 0 1 0x1080 7
live 1 0 2 0x1090 9
entry -
end

# Headers in front of three sections: 64 bytes and 56, which emit nothing.
{"plan":{"page":4096,"base":["num",4096],"sections":[{"name":"H","attrs":1,"parts":[[8,false],[4,false]]},{"name":"A","attrs":1,"parts":[[8,false]]},{"name":"B","attrs":1,"parts":[[1,false]]},{"name":"C","attrs":17,"parts":[[16,false]]}],"segments":[{"kind":"load"}],"events":[["seg",0],["sec",0],["sec",1],["sec",2],["sec",3],["endseg",0]],"file_header":0,"program_headers":1},"groups":[[{"kind":"prelude"}],[{"kind":"object","name":"a.o","sections":[{"slot":"must","part":2,"size":8},{"slot":"must","part":3,"size":7},{"slot":"must","part":4,"size":16}]}]]}
0 layout
section 0 index - mem 0x1000 120 file 0x0 120 align 8 lma 0x1000 attrs 1
section 1 index 0 mem 0x1078 8 file 0x78 8 align 8 lma 0x1078 attrs 1
section 2 index 1 mem 0x1080 7 file 0x80 7 align 1 lma 0x1080 attrs 1
section 3 index 2 mem 0x1090 16 file 0x87 0 align 16 lma 0x1090 attrs 17
part 0 mem 0x1000 64 file 0x0 64 align 8
part 1 mem 0x1040 56 file 0x40 56 align 4
part 2 mem 0x1078 8 file 0x78 8 align 8
part 3 mem 0x1080 7 file 0x80 7 align 1
part 4 mem 0x1090 16 file 0x87 0 align 16
segment 0 mem 0x1000 160 file 0x0 135 align 16
live 1 0 0 0x1078 8
live 1 0 1 0x1080 7
live 1 0 2 0x1090 16
entry -
end

# A section that is never emitted emits the one that it is secondary to.
{"plan":{"page":16,"sections":[{"attrs":1,"parts":[[1,false]]},{"attrs":1,"parts":[[1,false]],"primary":0,"emit":"never"}],"segments":[{"kind":"load"}],"events":[["seg",0],["sec",0],["sec",1],["endseg",0]]},"groups":[[{"kind":"prelude"}],[{"kind":"object","sections":[{"slot":"must","part":1,"size":4}]}]]}
0 layout
section 0 index 0 mem 0x0 0 file 0x0 0 align 1 lma 0x0 attrs 1
section 1 index - mem 0x0 4 file 0x0 4 align 1 lma 0x0 attrs 1
part 0 mem 0x0 0 file 0x0 0 align 1
part 1 mem 0x0 4 file 0x0 4 align 1
segment 0 mem 0x0 4 file 0x0 4 align 1
live 1 0 0 0x0 4
entry -
end

# A symbol that is downgraded to local stands among the others.
{"plan":{"page":16,"sections":[{"attrs":0,"parts":[[8,false],[4,false]]},{"attrs":1,"parts":[[1,false]]}],"segments":[{"kind":"load"}],"events":[["seg",0],["sec",0],["sec",1],["endseg",0]],"symtab_local":0,"symtab_global":1},"groups":[[{"kind":"prelude"}],[{"kind":"object","sections":[{"slot":"must","part":2,"size":1}],"symbols":[{"at":["sec",0,0],"name":"x","flags":8}]}]]}
0 layout
section 0 index 0 mem 0x0 48 file 0x0 48 align 8 lma 0x0 attrs 0
section 1 index 1 mem 0x0 1 file 0x30 1 align 1 lma 0x0 attrs 1
part 0 mem 0x0 24 file 0x0 24 align 8
part 1 mem 0x18 24 file 0x18 24 align 4
part 2 mem 0x0 1 file 0x30 1 align 1
segment 0 mem 0x0 48 file 0x0 49 align 8
live 1 0 0 0x0 1
entry -
end

# The identity alone emits its section.
{"plan":{"page":16,"sections":[{"attrs":0,"parts":[[1,false]]}],"segments":[],"events":[["sec",0]],"comment":0},"groups":[[{"kind":"prelude"}]],"options":{"identity":"x"}}
0 layout
section 0 index 0 mem 0x0 10 file 0x0 10 align 1 lma 0x0 attrs 0
part 0 mem 0x0 10 file 0x0 10 align 1
entry -
end

# A symbol with every flag that is handed in, and every entry that is asked for.
{"options":{"output":"dynamic"},"plan":{"page":16,"sections":[{"attrs":1,"parts":[[16,false],[8,false],[1,false]]}],"segments":[{"kind":"load"}],"events":[["seg",0],["sec",0],["endseg",0]],"plt":0,"got":1},"groups":[[{"kind":"prelude"}],[{"kind":"object","symbols":[{"at":["sec",0,0],"name":"f","flags":63}],"sections":[{"slot":"must","part":2,"size":4,"relocs":[[0,"PltRelative",0,0,false],[0,"GotTpOff",0,0,false],[0,"TlsGd",0,0,false],[0,"TlsDesc",0,0,false],[0,"Absolute",0,0,false],[0,"SymbolSize",0,0,false]]}]}]]}
0 layout
section 0 index 0 mem 0x0 68 file 0x0 68 align 16 lma 0x0 attrs 1
part 0 mem 0x0 16 file 0x0 16 align 16
part 1 mem 0x10 48 file 0x10 48 align 8
part 2 mem 0x40 4 file 0x40 4 align 1
segment 0 mem 0x0 68 file 0x0 68 align 16
live 1 0 0 0x40 4
symbol 0 0x40 8191 got 0x10 plt 0x0 dyn 1
entry -
end

# The identity stands behind the image of its part, and emits the section.
{"options":{"identity":"x"},"plan":{"page":1,"sections":[{"parts":[[1,false]]}],"events":[["sec",0]],"comment":0},"groups":[[{"kind":"prelude"}],[{"kind":"object","sections":[{"slot":"merge","strings":true,"data":"616200"},{"slot":"must","size":2}]}]]}
0 layout
section 0 index 0 mem 0x0 15 file 0x0 15 align 1 lma 0x0 attrs 0
part 0 mem 0x0 15 file 0x0 15 align 1
live 1 0 1 0xd 2
merged 0 3 1 1 3 0x0
piece 0 0x0 3
entry -
end

# Symbol tables, their names, and those of sections.
{"plan":{"page":16,"sections":[{"name":"t","attrs":1,"parts":[[4,false]]},{"name":"sy","parts":[[8,false],[4,false],[2,false],[1,false]]}],"segments":[{"kind":"load"}],"events":[["seg",0],["sec",0],["endseg",0],["sec",1]],"symtab_local":1,"symtab_global":2,"strtab":3,"shstrtab":4},"groups":[[{"kind":"prelude"}],[{"kind":"object","symbols":[{"at":["sec",0,0],"name":"a","local":true},{"at":["sec",0,0],"name":"bb"},{"at":["sec",0,0],"name":".Lc","local":true}],"sections":[{"slot":"must","size":4}]}]]}
0 layout
section 0 index 0 mem 0x0 4 file 0x0 4 align 4 lma 0x0 attrs 1
section 1 index 1 mem 0x0 83 file 0x8 83 align 8 lma 0x0 attrs 0
part 0 mem 0x0 4 file 0x0 4 align 4
part 1 mem 0x0 48 file 0x8 48 align 8
part 2 mem 0x30 24 file 0x38 24 align 4
part 3 mem 0x48 6 file 0x50 6 align 2
part 4 mem 0x4e 5 file 0x56 5 align 1
segment 0 mem 0x0 4 file 0x0 4 align 4
live 1 0 0 0x0 4
entry -
end"#;

#[test]
fn tables_are_laid_out(rt: HostRuntime) -> Result<(), Fail> {
    expect_reports(&rt, rt.alloc(), TABLED)
}

/// What tables are refused for: an empty name that takes the one byte that is too many; bytes of sections that aren't emitted, and so
/// stand in no segment; parts that have two names, and entries without a part.
const REFUSED: &str = r#"
{"plan":{"page":1,"sections":[{"parts":[[1,false]]},{"parts":[[1,false]]},{"parts":[[1,false]]}],"events":[["sec",0],["sec",1],["sec",2]],"strtab":0},"groups":[[{"kind":"prelude"}],[{"kind":"object","sections":[{"slot":"must","part":1,"size":18446744073709551615},{"slot":"must","part":2,"size":1}]}]]} => 1 address overflow: part 1
{"plan":{"page":1,"sections":[{"attrs":1,"parts":[[1,false]]}],"strtab":0,"events":[["sec",0]]},"groups":[[{"kind":"prelude"}]]} | {"plan":{"page":1,"sections":[{"attrs":1,"parts":[[1,false]],"emit":"never"}],"events":[["sec",0]],"strtab":0},"groups":[[{"kind":"prelude"}]]} => 1 section 0 is in no segment
@ {"plan":{"page":1,"sections":[{"attrs":1,"parts":[[8,false],[1,false]]}],"events":[["sec",0]],...},"groups":[[{"kind":"prelude"}]]}
"strtab":1 | "symtab_local":0 | "file_header":0 => 1 section 0 is in no segment
"got":1,"plt":1 => 1 bad link: rule 4, part field 1
"symtab_local":2 => 1 bad link: rule 4, part field 2
"strtab":1,"comment":1 => 1 bad link: rule 4, part field 11
# A discarded section may name a part of a table; its relocations want their tables all the same.
@ {"plan":{"page":1,"sections":[{"parts":[[8,false],[1,false]]}],"events":[["sec",0]],"got":0},"groups":[[{"kind":"prelude"}],[{"kind":"object","symbols":[{"at":["undef"]}],"sections":[{"slot":"discard","part":0,"size":1...]}]]}
,"relocs":[[9,"PltRelative",77,0,false]]} => 1 bad link: rule 12, input 1 0 0
},{"slot":"discard","part":0,"relocs":[[9,"PltRelGotBase",77,0,false]]} => 1 bad link: rule 12, input 1 0 1
},{"slot":"must","part":0} => 1 bad link: rule 11, input 1 0 1
},{"slot":"must","part":1,"size":18446744073709551615},{"slot":"must","part":1,"size":1} => 1 address overflow: part 1
"#;

#[test]
fn tables_are_refused(rt: HostRuntime) -> Result<(), Fail> {
    expect_rows(&rt, rt.alloc(), Asked::Run, REFUSED)
}
