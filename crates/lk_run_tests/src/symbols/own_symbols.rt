//! Symbols of the linker's own files and of scripts, and what redirects come to.

use crate::rows::{Asked, expect_rows};
use crate::runs::expect_reports;
use std::test::Fail;

/// Descriptions with their reports.
const REPORTED: &str =
    r#"# Edges: a start, an end, that of a group, and the end of thread-local data.
{"plan":{"page":4096,"base":["num",4096],"sections":[{"attrs":9,"parts":[[4,false]]},{"attrs":25,"parts":[[16,false]]},{"attrs":1,"parts":[[4,false]]},{"attrs":1,"parts":[[1,false]],"primary":2}],"segments":[{"kind":"load"},{"kind":"tls"}],"events":[["seg",0],["seg",1],["sec",0],["sec",1],["endseg",1],["sec",2],["sec",3],["endseg",0]]},"groups":[[{"kind":"prelude"}],[{"kind":"script","symbols":[{"at":["start",1],"name":"start"},{"at":["end",2],"name":"end"},{"at":["groupend",2],"name":"group"},{"at":["tlsend"],"name":"tls"},{"at":["loadbase"],"name":"base"},{"at":["undefined"],"name":"none"}]}],[{"kind":"object","sections":[{"slot":"must","part":0,"size":4},{"slot":"must","part":1,"size":16},{"slot":"must","part":2,"size":4},{"slot":"must","part":3,"size":5}]}]]}
0 layout
section 0 index 0 mem 0x1000 4 file 0x0 4 align 4 lma 0x1000 attrs 9
section 1 index 1 mem 0x1010 16 file 0x4 0 align 16 lma 0x1010 attrs 25
section 2 index 2 mem 0x1004 4 file 0x4 4 align 4 lma 0x1004 attrs 1
section 3 index - mem 0x1008 5 file 0x8 5 align 1 lma 0x1008 attrs 1
part 0 mem 0x1000 4 file 0x0 4 align 4
part 1 mem 0x1010 16 file 0x4 0 align 16
part 2 mem 0x1004 4 file 0x4 4 align 4
part 3 mem 0x1008 5 file 0x8 5 align 1
segment 0 mem 0x1000 13 file 0x0 13 align 4
segment 1 mem 0x1000 32 file 0x0 4 align 16
live 2 0 0 0x1000 4
live 2 0 1 0x1010 16
live 2 0 2 0x1004 4
live 2 0 3 0x1008 5
symbol 0 0x1010 8192 got - plt - dyn -
symbol 1 0x1008 8192 got - plt - dyn -
symbol 2 0x100d 8192 got - plt - dyn -
symbol 3 0x1020 8192 got - plt - dyn -
symbol 4 0x1000 8192 got - plt - dyn -
symbol 5 0x0 8192 got - plt - dyn -
entry -
end

# Marked late: the end of an emitted section and what is forced; not the start of section 0, nor edges that aren't emitted, nor the load base.
{"plan":{"page":16,"base":["num",32],"sections":[{"attrs":1,"parts":[[1,false]]},{"attrs":1,"parts":[[1,false]]}],"segments":[{"kind":"load"}],"events":[["seg",0],["sec",0],["sec",1],["endseg",0]]},"groups":[[{"kind":"prelude","symbols":[{"at":["start",0],"name":"s0"},{"at":["end",0],"name":"e0"},{"at":["start",1],"name":"s1"},{"at":["loadbase"],"name":"b"},{"at":["force"],"name":"f"},{"at":["undefined"],"name":"u"}]}],[{"kind":"object","sections":[{"slot":"must","part":0,"size":4}]}]]}
0 layout
section 0 index 0 mem 0x20 4 file 0x0 4 align 1 lma 0x20 attrs 1
section 1 index - mem 0x24 0 file 0x4 0 align 1 lma 0x24 attrs 1
part 0 mem 0x20 4 file 0x0 4 align 1
part 1 mem 0x24 0 file 0x4 0 align 1
segment 0 mem 0x20 4 file 0x0 4 align 1
live 1 0 0 0x20 4
symbol 1 0x24 64 got - plt - dyn -
symbol 4 0x0 64 got - plt - dyn -
entry -
end

# Redirects of a script, by joined sections, and by each section by itself where they have a location.
{"plan":{"page":16,"base":["num",16],"sections":[{"attrs":1,"parts":[[1,false]]},{"attrs":1,"parts":[[1,false]],"primary":0}],"segments":[{"kind":"load"}],"events":[["seg",0],["sec",0],["sec",1],["endseg",0]]},"groups":[[{"kind":"prelude"}],[{"kind":"script","symbols":[{"at":["redirect",["addr",1],["none"],false],"name":"m"},{"at":["redirect",["addr",1],["counter",0],false],"name":"o"},{"at":["redirect",["sizeof",0],["none"],false],"name":"g"},{"at":["groupend",0],"name":"e"},{"at":["end",0],"name":"x"}]}],[{"kind":"object","sections":[{"slot":"must","part":0,"size":4},{"slot":"must","part":1,"size":2}]}]]}
0 layout
section 0 index 0 mem 0x10 4 file 0x0 4 align 1 lma 0x10 attrs 1
section 1 index - mem 0x14 2 file 0x4 2 align 1 lma 0x14 attrs 1
part 0 mem 0x10 4 file 0x0 4 align 1
part 1 mem 0x14 2 file 0x4 2 align 1
segment 0 mem 0x10 6 file 0x0 6 align 1
live 2 0 0 0x10 4
live 2 0 1 0x14 2
symbol 0 0x0 8256 got - plt - dyn -
symbol 1 0x14 8256 got - plt - dyn -
symbol 2 0x6 8256 got - plt - dyn -
symbol 3 0x16 8192 got - plt - dyn -
symbol 4 0x14 8192 got - plt - dyn -
entry -
end

# One reads the one before it, a symbol of an object behind it, a region and the headers.
{"options":{"entry":4},"plan":{"page":1,"sections":[{"attrs":1,"parts":[[1,false]]}],"regions":[{"name":"r","origin":["num",3],"length":["num",5]}],"segments":[{"kind":"load"}],"events":[["seg",0],["sec",0],["endseg",0]]},"groups":[[{"kind":"prelude","symbols":[{"at":["redirect",["add",["sym",4],["num",1]],["none"],false],"name":"p"}]}],[{"kind":"script","symbols":[{"at":["redirect",["num",16],["none"],false],"name":"x"},{"at":["redirect",["add",["sym",1],["num",1]],["none"],false],"name":"y"},{"at":["redirect",["add",["length",0],["add",["origin",0],["headers"]]],["none"],false],"name":"z","hidden":true}]}],[{"kind":"object","sections":[{"slot":"must","size":8}],"symbols":[{"at":["sec",0,6]}]}]]}
0 layout
section 0 index 0 mem 0x0 8 file 0x0 8 align 1 lma 0x0 attrs 1
part 0 mem 0x0 8 file 0x0 8 align 1
segment 0 mem 0x0 8 file 0x0 8 align 1
live 2 0 0 0x0 8
symbol 0 0x7 64 got - plt - dyn -
symbol 1 0x10 8256 got - plt - dyn -
symbol 2 0x11 8256 got - plt - dyn -
symbol 3 0x80 64 got - plt - dyn -
symbol 4 0x6 64 got - plt - dyn -
entry 0x6
end

# Where only provided, one is left out that nothing wants; a synthetic one is 0, and so it is for those that read it.
{"options":{"entry":1},"plan":{"page":1,"sections":[{"parts":[[1,false]]}],"events":[["sec",0]]},"groups":[[{"kind":"prelude"}],[{"kind":"synthetic","symbols":[{"at":["redirect",["num",7],["none"],false],"name":"s"}]},{"kind":"script","symbols":[{"at":["redirect",["add",["sym",0],["num",2]],["none"],true],"name":"w"},{"at":["redirect",["div",["num",1],["num",0]],["none"],true],"name":"u"}]}],[{"kind":"object","symbols":[{"at":["undef"],"def":0}],"sections":[{"slot":"must","size":4,"relocs":[[0,"Absolute",0,0,false]]}]}]]}
0 layout
section 0 index 0 mem 0x0 4 file 0x0 4 align 1 lma 0x0 attrs 0
part 0 mem 0x0 4 file 0x0 4 align 1
live 2 0 0 0x0 4
symbol 0 0x0 64 got - plt - dyn -
symbol 1 0x2 8256 got - plt - dyn -
entry 0x2
end

# Entries of a symbol of a script, whose value is set at last.
{"options":{"output":"shared"},"plan":{"page":16,"sections":[{"attrs":1,"parts":[[8,false]]},{"attrs":1,"parts":[[16,false]]},{"attrs":1,"parts":[[1,false]]},{"attrs":1,"parts":[[8,false]]}],"segments":[{"kind":"load"}],"events":[["seg",0],["sec",0],["sec",1],["sec",2],["sec",3],["endseg",0]],"got":0,"plt":1,"dynsym":3},"groups":[[{"kind":"prelude"}],[{"kind":"script","symbols":[{"at":["redirect",["add",["num",40],["num",2]],["none"],false],"name":"x"}]}],[{"kind":"object","symbols":[{"at":["undef"],"def":0}],"sections":[{"slot":"must","part":2,"size":4,"relocs":[[0,"Got",0,0,false],[1,"PltRelative",0,0,false]]}]}]]}
0 layout
section 0 index 0 mem 0x0 8 file 0x0 8 align 8 lma 0x0 attrs 1
section 1 index 1 mem 0x10 16 file 0x10 16 align 16 lma 0x10 attrs 1
section 2 index 2 mem 0x20 4 file 0x20 4 align 1 lma 0x20 attrs 1
section 3 index 3 mem 0x28 48 file 0x28 48 align 8 lma 0x28 attrs 1
part 0 mem 0x0 8 file 0x0 8 align 8
part 1 mem 0x10 16 file 0x10 16 align 16
part 2 mem 0x20 4 file 0x20 4 align 1
part 3 mem 0x28 48 file 0x28 48 align 8
segment 0 mem 0x0 88 file 0x0 88 align 16
live 2 0 0 0x20 4
symbol 0 0x2a 8640 got 0x0 plt 0x10 dyn 1
entry -
end

# Output that is linked again: the prelude marks the edges of sections with content, and what is forced.
{"options":{"output":"partial"},"plan":{"page":16,"sections":[{"name":"a","attrs":1,"parts":[[8,false]]},{"name":"t","attrs":0,"parts":[[8,false]]},{"name":"s","attrs":7,"parts":[[4,false]]},{"name":"z","attrs":1,"parts":[[1,false]],"primary":2}],"events":[["sec",0],["sec",1],["sec",2],["sec",3]],"singletons":2,"symtab_local":1},"groups":[[{"kind":"prelude","symbols":[{"at":["end",0],"name":"e0"},{"at":["end",1],"name":"e1"},{"at":["end",2],"name":"e2"},{"at":["force"],"name":"f","hidden":true}]}],[{"kind":"object","sections":[{"slot":"must","part":0,"size":4},{"slot":"must","part":2,"size":3,"name":"one"},{"slot":"must","part":3,"size":5}],"symbols":[{"at":["common",2,8],"name":"c"}]}]]}
0 layout
section 0 index 0 mem 0x0 8 file 0x0 8 align 8 lma 0x0 attrs 1
section 1 index - mem 0x0 96 file 0x8 96 align 8 lma 0x0 attrs 0
section 2 index - mem 0x0 4 file 0x68 4 align 4 lma 0x0 attrs 0
section 3 index - mem 0x0 5 file 0x6c 5 align 1 lma 0x0 attrs 1
part 0 mem 0x0 8 file 0x0 8 align 8
part 1 mem 0x0 96 file 0x8 96 align 8
part 2 mem 0x0 4 file 0x68 4 align 4
part 3 mem 0x0 5 file 0x6c 5 align 1
live 1 0 0 0x0 4
live 1 0 1 0x0 3
live 1 0 2 0x0 5
single 1 0 1 1
symbol 0 0x8 64 got - plt - dyn -
symbol 3 0x0 64 got - plt - dyn -
entry -
end"#;

#[test]
fn own_symbols_have_their_values(rt: HostRuntime) -> Result<(), Fail> {
    expect_reports(&rt, rt.alloc(), REPORTED)
}

/// Descriptions whose redirects have no value, and what is refused before and behind that.
const REFUSED: &str = r#"
# A redirect of itself, of a later one, and other causes.
{"plan":{"page":1},"groups":[[{"kind":"prelude"}],[{"kind":"script","symbols":[{"at":["redirect",["sym",0],["none"],false],"name":"z"}]}]]} => 1 expression at symbol 0: self reference
{"plan":{"page":1},"groups":[[{"kind":"prelude"}],[{"kind":"script","symbols":[{"at":["redirect",["sym",1],["none"],false],"name":"w"},{"at":["redirect",["num",1],["none"],false],"name":"x"}]}]]} => 1 expression at symbol 0: no address
{"plan":{"page":1},"groups":[[{"kind":"prelude"}],[{"kind":"script","symbols":[{"at":["redirect",["div",["num",1],["num",0]],["none"],false],"name":"x"}]}]]} => 1 expression at symbol 0: division by zero
{"plan":{"page":1},"groups":[[{"kind":"prelude"}],[{"kind":"script","symbols":[{"at":["redirect",["sub",["num",1],["num",2]],["none"],false],"name":"x"}]}]]} => 1 expression at symbol 0: overflow
{"options":{"entry":1},"plan":{"page":1},"groups":[[{"kind":"prelude","symbols":[{"at":["redirect",["sym",1],["none"],false],"name":"x"}]}],[{"kind":"object","symbols":[{"at":["undef"]}]}]]} => 1 expression at symbol 0: missing symbol
# Without a name it is looked at all the same, and gives no value to others.
{"plan":{"page":1},"groups":[[{"kind":"prelude","symbols":[{"at":["redirect",["num",1],["none"],false]},{"at":["redirect",["sym",0],["none"],false],"name":"x"}]}]]} => 1 expression at symbol 1: no address
# Behind offsets into merged data, and before branches.
{"plan":{"page":16,"sections":[{"attrs":1,"parts":[[1,false]]}],"segments":[{"kind":"load"}],"events":[["seg",0],["sec",0],["endseg",0]]},"groups":[[{"kind":"prelude"}],[{"kind":"script","symbols":[{"at":["redirect",["dot"],["none"],false],"name":"x"}]}],[{"kind":"object","sections":[{"slot":"merge","size":1,"data":"61"},{"slot":"must","size":1,"relocs":[[0,"Absolute",0,0,false]]}],"symbols":[{"at":["sec",0,4],"name":"far"}]}]]} => 1 merge offset: symbol 1
{"options":{"branch_range":2097153},"plan":{"page":1,"base":["num",0],"sections":[{"attrs":5,"parts":[[1,false]]}],"segments":[{"kind":"load"}],"events":[["seg",0],["sec",0],["endseg",0]],"primary":0},"groups":[[{"kind":"prelude"}],[{"kind":"script","symbols":[{"at":["redirect",["dot"],["none"],false],"name":"x"}]}],[{"kind":"object","sections":[{"slot":"must","size":4194304,"attrs":4,"relocs":[[0,"Relative",0,0,true]]}],"symbols":[{"at":["sec",0,4194300]}]}]]} => 1 expression at symbol 0: no address
{"options":{"branch_range":2097153},"plan":{"page":1,"base":["num",0],"sections":[{"attrs":5,"parts":[[1,false]]}],"segments":[{"kind":"load"}],"events":[["seg",0],["sec",0],["endseg",0]],"primary":0},"groups":[[{"kind":"prelude"}],[{"kind":"script","symbols":[{"at":["redirect",["num",1],["none"],false],"name":"x"}]}],[{"kind":"object","sections":[{"slot":"must","size":4194304,"attrs":4,"relocs":[[0,"Relative",0,0,true]]}],"symbols":[{"at":["sec",0,4194300]}]}]]} => 1 out of reach: branch 2 0 0 0
"#;

#[test]
fn redirects_without_a_value_are_refused(rt: HostRuntime) -> Result<(), Fail> {
    expect_rows(&rt, rt.alloc(), Asked::Run, REFUSED)
}
