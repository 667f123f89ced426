//! What commons bring to parts, which sections they keep, and where they stand.

use crate::runs::expect_reports;
use std::test::Fail;

/// Runs over links with commons.
const REPORTS: &str = r#"# Two files with a section and a common each: rounded up,
{"plan":{"page":16,"sections":[{"attrs":1,"parts":[[4,false]]}],"segments":[{"kind":"load"}],"events":[["seg",0],["sec",0],["endseg",0]]},"groups":[[{"kind":"prelude"}],[{"kind":"object","symbols":[{"at":["common",0,5]}],"sections":[{"slot":"must","size":3,"relocs":[[0,"Absolute",0,0,false]]}]}],[{"kind":"object","symbols":[{"at":["common",0,5]}],"sections":[{"slot":"must","size":3,"relocs":[[0,"Absolute",0,0,false]]}]}]]}
0 layout
section 0 index 0 mem 0x0 24 file 0x0 24 align 4 lma 0x0 attrs 1
part 0 mem 0x0 24 file 0x0 24 align 4
segment 0 mem 0x0 24 file 0x0 24 align 4
live 1 0 0 0x0 3
live 2 0 0 0xc 3
symbol 0 0x4 64 got - plt - dyn -
symbol 1 0x10 64 got - plt - dyn -
entry -
end

# and packed.
{"plan":{"page":16,"sections":[{"attrs":1,"parts":[[4,true]]}],"segments":[{"kind":"load"}],"events":[["seg",0],["sec",0],["endseg",0]]},"groups":[[{"kind":"prelude"}],[{"kind":"object","symbols":[{"at":["common",0,5]}],"sections":[{"slot":"must","size":3,"relocs":[[0,"Absolute",0,0,false]]}]}],[{"kind":"object","symbols":[{"at":["common",0,5]}],"sections":[{"slot":"must","size":3,"relocs":[[0,"Absolute",0,0,false]]}]}]]}
0 layout
section 0 index 0 mem 0x0 16 file 0x0 16 align 4 lma 0x0 attrs 1
part 0 mem 0x0 16 file 0x0 16 align 4
segment 0 mem 0x0 16 file 0x0 16 align 4
live 1 0 0 0x0 3
live 2 0 0 0x8 3
symbol 0 0x3 64 got - plt - dyn -
symbol 1 0xb 64 got - plt - dyn -
entry -
end

# A relocation that wants the value keeps it. It stands behind the file's section, and takes a multiple of four bytes.
{"plan":{"page":16,"sections":[{"attrs":1,"parts":[[4,false]]}],"segments":[{"kind":"load"}],"events":[["seg",0],["sec",0],["endseg",0]]},"groups":[[{"kind":"prelude"}],[{"kind":"object","symbols":[{"at":["common",0,5]}],"sections":[{"slot":"must","size":4,"relocs":[[0,"Absolute",0,0,false]]}]}]]}
0 layout
section 0 index 0 mem 0x0 12 file 0x0 12 align 4 lma 0x0 attrs 1
part 0 mem 0x0 12 file 0x0 12 align 4
segment 0 mem 0x0 12 file 0x0 12 align 4
live 1 0 0 0x0 4
symbol 0 0x4 64 got - plt - dyn -
entry -
end

# In a packed part it takes its size.
{"plan":{"page":16,"sections":[{"attrs":1,"parts":[[4,true]]}],"segments":[{"kind":"load"}],"events":[["seg",0],["sec",0],["endseg",0]]},"groups":[[{"kind":"prelude"}],[{"kind":"object","symbols":[{"at":["common",0,5]},{"at":["common",0,1]}],"sections":[{"slot":"must","size":3,"relocs":[[0,"Absolute",0,0,false],[0,"Relative",1,0,false]]}]}]]}
0 layout
section 0 index 0 mem 0x0 9 file 0x0 9 align 4 lma 0x0 attrs 1
part 0 mem 0x0 9 file 0x0 9 align 4
segment 0 mem 0x0 9 file 0x0 9 align 4
live 1 0 0 0x0 3
symbol 0 0x3 64 got - plt - dyn -
symbol 1 0x8 64 got - plt - dyn -
entry -
end

# Nothing refers to it, and flags that are handed in ask for nothing.
{"plan":{"page":16,"sections":[{"attrs":1,"parts":[[4,false]]}],"segments":[{"kind":"load"}],"events":[["seg",0],["sec",0],["endseg",0]]},"groups":[[{"kind":"prelude"}],[{"kind":"object","symbols":[{"at":["common",0,5],"flags":63},{"at":["common",0,9]}],"sections":[{"slot":"unloaded","size":4,"relocs":[[0,"Absolute",1,0,false]]}]}]]}
0 layout
section 0 index - mem 0x0 0 file 0x0 0 align 1 lma 0x0 attrs 1
part 0 mem 0x0 0 file 0x0 0 align 1
entry -
end

# A relocation that wants nothing keeps none; one that wants the size does.
{"plan":{"page":1,"sections":[{"parts":[[4,false]]}],"events":[["sec",0]]},"groups":[[{"kind":"prelude"}],[{"kind":"object","symbols":[{"at":["common",0,4]},{"at":["common",0,2]}],"sections":[{"slot":"must","size":1,"relocs":[[0,"None",0,0,true],[0,"SymbolSize",1,0,false]]}]}]]}
0 layout
section 0 index 0 mem 0x0 8 file 0x0 8 align 4 lma 0x0 attrs 0
part 0 mem 0x0 8 file 0x0 8 align 4
live 1 0 0 0x0 1
symbol 1 0x4 4096 got - plt - dyn -
entry -
end

# A dynamic file keeps one that it takes, since that is exported to it; no section does. It emits its section.
{"plan":{"page":16,"sections":[{"attrs":1,"parts":[[4,false]]}],"segments":[{"kind":"load"}],"events":[["seg",0],["sec",0],["endseg",0]]},"groups":[[{"kind":"prelude"}],[{"kind":"object","symbols":[{"at":["common",0,5]}]},{"kind":"dynamic","symbols":[{"at":["undef"],"def":0}]}]]}
0 layout
section 0 index 0 mem 0x0 8 file 0x0 8 align 4 lma 0x0 attrs 1
part 0 mem 0x0 8 file 0x0 8 align 4
segment 0 mem 0x0 8 file 0x0 8 align 4
symbol 0 0x0 8192 got - plt - dyn -
entry -
end

# Local, hidden and downgraded ones aren't exported.
{"plan":{"page":1,"sections":[{"parts":[[4,false]]}],"events":[["sec",0]]},"groups":[[{"kind":"prelude"}],[{"kind":"object","symbols":[{"at":["common",0,5],"local":true},{"at":["common",0,5],"hidden":true},{"at":["common",0,5],"flags":8}]},{"kind":"dynamic","symbols":[{"at":["undef"],"def":0},{"at":["undef"],"def":1},{"at":["undef"],"def":2}]}]]}
0 layout
section 0 index - mem 0x0 0 file 0x0 0 align 1 lma 0x0 attrs 0
part 0 mem 0x0 0 file 0x0 0 align 1
entry -
end

# The entry keeps one.
{"options":{"entry":1},"plan":{"page":16,"base":["num",64],"sections":[{"attrs":1,"parts":[[8,false]]}],"segments":[{"kind":"load"}],"events":[["seg",0],["sec",0],["endseg",0]]},"groups":[[{"kind":"prelude"}],[{"kind":"object","symbols":[{"at":["common",0,5]},{"at":["undef"],"def":0}],"sections":[{"slot":"must","size":20}]}]]}
0 layout
section 0 index 0 mem 0x40 32 file 0x0 32 align 8 lma 0x40 attrs 1
part 0 mem 0x40 32 file 0x0 32 align 8
segment 0 mem 0x40 32 file 0x0 32 align 8
live 1 0 0 0x40 20
symbol 0 0x58 64 got - plt - dyn -
entry 0x58
end

# File by file: the sections of each, then its commons by index. The first one here is needed by the last file.
{"plan":{"page":16,"sections":[{"attrs":1,"parts":[[4,false]]}],"segments":[{"kind":"load"}],"events":[["seg",0],["sec",0],["endseg",0]]},"groups":[[{"kind":"prelude"},{"kind":"object","symbols":[{"at":["common",0,1]},{"at":["abs",7]},{"at":["common",0,6]}],"sections":[{"slot":"must","size":1},{"slot":"must","size":5}]}],[{"kind":"object","symbols":[{"at":["common",0,2]},{"at":["undef"],"def":2}],"sections":[{"slot":"must","size":9,"relocs":[[0,"Absolute",0,0,false],[4,"Absolute",1,0,false]]}]}],[{"kind":"object","symbols":[{"at":["undef"],"def":0},{"at":["common",0,3]},{"at":["undef"],"def":3}],"sections":[{"slot":"must","size":4,"relocs":[[0,"Relative",0,0,false],[0,"SymbolSize",2,0,false]]}]}]]}
0 layout
section 0 index 0 mem 0x0 44 file 0x0 44 align 4 lma 0x0 attrs 1
part 0 mem 0x0 44 file 0x0 44 align 4
segment 0 mem 0x0 44 file 0x0 44 align 4
live 0 1 0 0x0 1
live 0 1 1 0x4 5
live 1 0 0 0x18 9
live 2 0 0 0x28 4
symbol 0 0xc 64 got - plt - dyn -
symbol 2 0x10 64 got - plt - dyn -
symbol 3 0x24 4160 got - plt - dyn -
entry -
end

# In parts of two sections, behind what is merged; the second section takes no bytes of the file.
{"plan":{"page":16,"sections":[{"attrs":1,"parts":[[4,false],[1,false]]},{"attrs":19,"parts":[[8,false]]}],"segments":[{"kind":"load"}],"events":[["seg",0],["sec",0],["sec",1],["endseg",0]]},"groups":[[{"kind":"prelude"}],[{"kind":"object","symbols":[{"at":["common",1,3]},{"at":["common",2,1]},{"at":["common",0,2]},{"at":["common",2,9]}],"sections":[{"slot":"must","part":1,"size":4,"relocs":[[0,"Absolute",0,0,false],[0,"Absolute",1,0,false],[0,"Absolute",2,0,false],[0,"Absolute",3,0,false]]},{"slot":"merge","part":1,"strings":true,"data":"6100"}]}]]}
0 layout
section 0 index 0 mem 0x0 13 file 0x0 13 align 4 lma 0x0 attrs 1
section 1 index 1 mem 0x10 24 file 0xd 0 align 8 lma 0x10 attrs 19
part 0 mem 0x0 4 file 0x0 4 align 4
part 1 mem 0x4 9 file 0x4 9 align 1
part 2 mem 0x10 24 file 0xd 0 align 8
segment 0 mem 0x0 40 file 0x0 13 align 8
live 1 0 0 0x6 4
merged 0 2 1 1 2 0x4
piece 0 0x4 2
symbol 0 0xa 64 got - plt - dyn -
symbol 1 0x10 64 got - plt - dyn -
symbol 2 0x0 64 got - plt - dyn -
symbol 3 0x18 64 got - plt - dyn -
entry -
end

# One without bytes has an address and emits nothing.
{"plan":{"page":16,"sections":[{"attrs":1,"parts":[[1,false]]},{"attrs":1,"parts":[[8,false]]}],"segments":[{"kind":"load"}],"events":[["seg",0],["sec",0],["sec",1],["endseg",0]]},"groups":[[{"kind":"prelude"}],[{"kind":"object","symbols":[{"at":["common",1,0]}],"sections":[{"slot":"must","size":3,"relocs":[[0,"Absolute",0,0,false]]}]}]]}
0 layout
section 0 index 0 mem 0x0 3 file 0x0 3 align 1 lma 0x0 attrs 1
section 1 index - mem 0x3 0 file 0x3 0 align 1 lma 0x3 attrs 1
part 0 mem 0x0 3 file 0x0 3 align 1
part 1 mem 0x3 0 file 0x3 0 align 1
segment 0 mem 0x0 3 file 0x0 3 align 1
live 1 0 0 0x0 3
symbol 0 0x3 64 got - plt - dyn -
entry -
end

# A section that is never emitted has its bytes all the same. A common gives it no attributes.
{"plan":{"page":16,"sections":[{"attrs":1,"emit":"never","parts":[[2,false]]},{"attrs":1,"parts":[[1,false]]}],"segments":[{"kind":"load"}],"events":[["seg",0],["sec",0],["sec",1],["endseg",0]]},"groups":[[{"kind":"prelude"}],[{"kind":"object","symbols":[{"at":["common",0,3]}],"sections":[{"slot":"must","part":1,"size":1,"attrs":2,"relocs":[[0,"Absolute",0,0,false]]}]}]]}
0 layout
section 0 index - mem 0x0 4 file 0x0 4 align 2 lma 0x0 attrs 1
section 1 index 0 mem 0x4 1 file 0x4 1 align 1 lma 0x4 attrs 3
part 0 mem 0x0 4 file 0x0 4 align 2
part 1 mem 0x4 1 file 0x4 1 align 1
segment 0 mem 0x0 5 file 0x0 5 align 2
live 1 0 0 0x4 1
symbol 0 0x0 64 got - plt - dyn -
entry -
end

# All numbers that there are, just used up.
{"plan":{"page":1,"sections":[{"parts":[[1,false]]}],"events":[["sec",0]]},"groups":[[{"kind":"prelude"}],[{"kind":"object","symbols":[{"at":["common",0,18446744073709551613]}],"sections":[{"slot":"must","size":2,"relocs":[[0,"Absolute",0,0,false]]}]}]]}
0 layout
section 0 index 0 mem 0x0 18446744073709551615 file 0x0 18446744073709551615 align 1 lma 0x0 attrs 0
part 0 mem 0x0 18446744073709551615 file 0x0 18446744073709551615 align 1
live 1 0 0 0x0 2
symbol 0 0x2 64 got - plt - dyn -
entry -
end

# One more.
{"plan":{"page":1,"sections":[{"parts":[[1,false]]}],"events":[["sec",0]]},"groups":[[{"kind":"prelude"}],[{"kind":"object","symbols":[{"at":["common",0,18446744073709551614]}],"sections":[{"slot":"must","size":2,"relocs":[[0,"Absolute",0,0,false]]}]}]]}
1 address overflow: part 0

# Commons alone pass it, of which the second is needed by an export alone.
{"plan":{"page":1,"sections":[{"parts":[[1,false]]},{"parts":[[1,false]]}],"events":[["sec",0],["sec",1]]},"options":{"entry":0},"groups":[[{"kind":"prelude"}],[{"kind":"object","symbols":[{"at":["common",0,18446744073709551614]},{"at":["common",1,2]}]}],[{"kind":"dynamic","symbols":[{"at":["undef"],"def":1}]}]]}
1 address overflow: part 1

# The size fits, and the next multiple of two doesn't.
{"plan":{"page":1,"sections":[{"parts":[[2,false]]}],"events":[["sec",0]]},"options":{"entry":0},"groups":[[{"kind":"prelude"}],[{"kind":"object","symbols":[{"at":["common",0,18446744073709551615]}]}]]}
1 address overflow: part 0

# An allocated section is outside the segments also where a common alone stands in it.
{"plan":{"page":1,"sections":[{"attrs":1,"parts":[[2,false]]}],"events":[["sec",0]]},"options":{"entry":0},"groups":[[{"kind":"prelude"}],[{"kind":"object","symbols":[{"at":["common",0,1]}]}]]}
1 section 0 is in no segment"#;

#[test]
fn commons_have_addresses(rt: HostRuntime) -> Result<(), Fail> {
    expect_reports(&rt, rt.alloc(), REPORTS)
}
