//! Layouts with thunks: what is reported of their blocks, and branches that don't reach.

use crate::rows::{Asked, expect_rows};
use crate::runs::expect_reports;
use std::test::Fail;

/// Descriptions with their reports.
const REPORTED: &str =
    r#"# What isn't defined in the primary part is left out only where the object ends near the start.
{"plan":{"page":16,"sections":[{"attrs":5,"parts":[[1,false]]}],"segments":[{"kind":"load"}],"events":[["seg",0],["sec",0],["endseg",0]],"primary":0},"groups":[[{"kind":"prelude"}],[{"kind":"object","sections":[{"slot":"must","part":0,"size":200,"attrs":4,"relocs":[[0,"Relative",0,0,true]]},{"slot":"unloaded","part":0,"size":2097153,"attrs":4}],"symbols":[{"at":["undef"],"weak":true}]}]],"options":{"branch_range":2097162}}
0 layout
section 0 index 0 mem 0x0 216 file 0x0 216 align 1 lma 0x0 attrs 5
part 0 mem 0x0 216 file 0x0 216 align 1
segment 0 mem 0x0 216 file 0x0 216 align 1
live 1 0 0 0x0 200
block 0 1 0
thunk 0 0 0xc8
symbol 0 0x0 16448 got - plt - dyn -
entry -
end

# The first block has what other parts name in the primary part, also an indirect function.
{"plan":{"page":16,"sections":[{"attrs":5,"parts":[[1,false]]},{"attrs":5,"parts":[[1,false]]}],"segments":[{"kind":"load"}],"events":[["seg",0],["sec",0],["sec",1],["endseg",0]],"primary":1},"groups":[[{"kind":"prelude"}],[{"kind":"object","sections":[{"slot":"must","part":0,"size":4,"attrs":4,"relocs":[[0,"Relative",0,0,true]]},{"slot":"must","part":1,"size":8,"attrs":4},{"slot":"unloaded","part":0,"size":2097153,"attrs":4}],"symbols":[{"at":["sec",1,0],"flags":4}]}]],"options":{"branch_range":2097153}}
0 layout
section 0 index 0 mem 0x0 4 file 0x0 4 align 1 lma 0x0 attrs 5
section 1 index 1 mem 0x4 24 file 0x4 24 align 1 lma 0x4 attrs 5
part 0 mem 0x0 4 file 0x0 4 align 1
part 1 mem 0x4 24 file 0x4 24 align 1
segment 0 mem 0x0 28 file 0x0 28 align 1
live 1 0 0 0x0 4
live 1 0 1 0x4 8
block 0 1 0
thunk 0 0 0xc
symbol 0 0x4 68 got - plt - dyn -
entry -
end

# Where no object has code in the primary part, thunks have no address.
{"plan":{"page":16,"sections":[{"attrs":5,"parts":[[1,false]]},{"attrs":5,"parts":[[1,false]]}],"segments":[{"kind":"load"}],"events":[["seg",0],["sec",0],["sec",1],["endseg",0]],"primary":1},"groups":[[{"kind":"prelude"}],[{"kind":"object","sections":[{"slot":"must","part":0,"size":4,"attrs":4,"relocs":[[0,"Relative",0,0,true]]},{"slot":"must","part":1,"size":0},{"slot":"unloaded","part":0,"size":2097153,"attrs":4}],"symbols":[{"at":["sec",1,0]}]}]],"options":{"branch_range":2097153}}
0 layout
section 0 index 0 mem 0x0 4 file 0x0 4 align 1 lma 0x0 attrs 5
section 1 index 1 mem 0x4 0 file 0x4 0 align 1 lma 0x4 attrs 5
part 0 mem 0x0 4 file 0x0 4 align 1
part 1 mem 0x4 0 file 0x4 0 align 1
segment 0 mem 0x0 4 file 0x0 4 align 1
live 1 0 0 0x0 4
live 1 0 1 0x4 0
thunk 0 0 -
symbol 0 0x4 64 got - plt - dyn -
entry -
end

# A relocation whose kind wants nothing may have a thunk stand in.
{"plan":{"page":16,"sections":[{"attrs":5,"parts":[[1,false]]}],"segments":[{"kind":"load"}],"events":[["seg",0],["sec",0],["endseg",0]],"primary":0},"groups":[[{"kind":"prelude"}],[{"kind":"object","sections":[{"slot":"must","part":0,"size":4,"attrs":4,"relocs":[[0,"None",0,0,true]]}],"symbols":[{"at":["sec",0,0]}]}]],"options":{"branch_range":3145728,"entry":0}}
0 layout
section 0 index 0 mem 0x0 4 file 0x0 4 align 1 lma 0x0 attrs 5
part 0 mem 0x0 4 file 0x0 4 align 1
segment 0 mem 0x0 4 file 0x0 4 align 1
live 1 0 0 0x0 4
symbol 0 0x0 16448 got - plt - dyn -
entry 0x0
end

# Code that isn't kept counts as code, whatever its size.
{"plan":{"page":16,"sections":[{"attrs":5,"parts":[[1,false]]}],"segments":[{"kind":"load"}],"events":[["seg",0],["sec",0],["endseg",0]],"primary":0},"groups":[[{"kind":"prelude"}],[{"kind":"object","sections":[{"slot":"must","part":0,"size":4,"attrs":4},{"slot":"unloaded","part":0,"size":18446744073709551615,"attrs":4},{"slot":"unloaded","part":0,"size":18446744073709551615,"attrs":4}]}]],"options":{"branch_range":2097153}}
0 layout
section 0 index 0 mem 0x0 4 file 0x0 4 align 1 lma 0x0 attrs 5
part 0 mem 0x0 4 file 0x0 4 align 1
segment 0 mem 0x0 4 file 0x0 4 align 1
live 1 0 0 0x0 4
block 0 1 0
entry -
end

# Four objects of which the first names the last: two blocks of two each, each owned by its first object, since no other one ends in range of where the second block begins. The thunk stands behind the first object's code.
{"options":{"branch_range":3145728},"plan":{"page":16,"sections":[{"attrs":5,"parts":[[1,false]]}],"segments":[{"kind":"load"}],"events":[["seg",0],["sec",0],["endseg",0]],"primary":0},"groups":[[{"kind":"prelude"}],[{"kind":"object","symbols":[{"at":["undef"],"def":1}],"sections":[{"slot":"must","attrs":4,"size":786432,"relocs":[[0,"Relative",0,0,true]]}]},{"kind":"object","sections":[{"slot":"must","attrs":4,"size":786432}]},{"kind":"object","sections":[{"slot":"must","attrs":4,"size":786432}]},{"kind":"object","symbols":[{"at":["sec",0,0]}],"sections":[{"slot":"must","attrs":4,"size":786432}]}]]}
0 layout
section 0 index 0 mem 0x0 3145744 file 0x0 3145744 align 1 lma 0x0 attrs 5
part 0 mem 0x0 3145744 file 0x0 3145744 align 1
segment 0 mem 0x0 3145744 file 0x0 3145744 align 1
live 1 0 0 0x0 786432
live 1 1 0 0xc0010 786432
live 1 2 0 0x180010 786432
live 1 3 0 0x240010 786432
block 0 1 0
block 1 1 2
thunk 0 1 0xc0000
symbol 1 0x240010 64 got - plt - dyn -
entry -
end

# Less code than branches reach: no blocks.
{"options":{"branch_range":3145729},"plan":{"page":16,"sections":[{"attrs":5,"parts":[[1,false]]}],"segments":[{"kind":"load"}],"events":[["seg",0],["sec",0],["endseg",0]],"primary":0},"groups":[[{"kind":"prelude"}],[{"kind":"object","symbols":[{"at":["sec",0,0]}],"sections":[{"slot":"must","attrs":4,"size":3145728,"relocs":[[0,"Relative",0,0,true]]}]}]]}
0 layout
section 0 index 0 mem 0x0 3145728 file 0x0 3145728 align 1 lma 0x0 attrs 5
part 0 mem 0x0 3145728 file 0x0 3145728 align 1
segment 0 mem 0x0 3145728 file 0x0 3145728 align 1
live 1 0 0 0x0 3145728
symbol 0 0x0 16448 got - plt - dyn -
entry -
end

# The planning range is 500 bytes. Objects of 100 bytes with gaps of 200 that other objects fill, which have no symbol: the first block is owned by the first, the other by the last object in range of where it begins. Ends are 100, 300, 400, 600, 700, 900, 1000. Behind 100 the run ends before 600: 300 and 400 join. The next object starts at 400 and ends at 600, and the run behind it ends before 900: so 700 is in it, the last one, and owns the block. Behind its end 900 and 1000 join.
{"options":{"branch_range":2097652},"plan":{"page":16,"sections":[{"attrs":5,"parts":[[1,false]]}],"segments":[{"kind":"load"}],"events":[["seg",0],["sec",0],["endseg",0]],"primary":0},"groups":[[{"kind":"prelude"}],[{"kind":"object","sections":[{"slot":"must","size":100},{"slot":"unloaded","attrs":4,"size":2097652}]},{"kind":"object","sections":[{"slot":"must","size":200}]},{"kind":"object"},{"kind":"object","sections":[{"slot":"must","size":100}]}],[{"kind":"object","sections":[{"slot":"must","size":200}]},{"kind":"object","sections":[{"slot":"must","size":100}]},{"kind":"object","sections":[{"slot":"must","size":200}]},{"kind":"object","sections":[{"slot":"must","size":100}]}]]}
0 layout
section 0 index 0 mem 0x0 1000 file 0x0 1000 align 1 lma 0x0 attrs 5
part 0 mem 0x0 1000 file 0x0 1000 align 1
segment 0 mem 0x0 1000 file 0x0 1000 align 1
live 1 0 0 0x0 100
live 1 1 0 0x64 200
live 1 3 0 0x12c 100
live 2 0 0 0x190 200
live 2 1 0 0x258 100
live 2 2 0 0x2bc 200
live 2 3 0 0x384 100
block 0 1 0
block 1 2 1
entry -
end

# A branch just in reach of what isn't in the primary part.
{"options":{"branch_range":3145728},"plan":{"page":16,"sections":[{"attrs":5,"parts":[[1,false]]},{"attrs":5,"parts":[[1,false]]},{"attrs":5,"parts":[[1,false]]}],"segments":[{"kind":"load"}],"events":[["seg",0],["sec",0],["sec",1],["sec",2],["endseg",0]],"primary":1},"groups":[[{"kind":"prelude"}],[{"kind":"object","symbols":[{"at":["sec",2,0]}],"sections":[{"slot":"must","part":0,"attrs":4,"size":4,"relocs":[[0,"Relative",0,0,true]]},{"slot":"must","part":1,"attrs":4,"size":3145720},{"slot":"must","part":2,"attrs":4,"size":4}]}]]}
0 layout
section 0 index 0 mem 0x0 4 file 0x0 4 align 1 lma 0x0 attrs 5
section 1 index 1 mem 0x4 3145720 file 0x4 3145720 align 1 lma 0x4 attrs 5
section 2 index 2 mem 0x2ffffc 4 file 0x2ffffc 4 align 1 lma 0x2ffffc attrs 5
part 0 mem 0x0 4 file 0x0 4 align 1
part 1 mem 0x4 3145720 file 0x4 3145720 align 1
part 2 mem 0x2ffffc 4 file 0x2ffffc 4 align 1
segment 0 mem 0x0 3145728 file 0x0 3145728 align 1
live 1 0 0 0x0 4
live 1 0 1 0x4 3145720
live 1 0 2 0x2ffffc 4
block 0 1 0
symbol 0 0x2ffffc 64 got - plt - dyn -
entry -
end

# Plans with a part for thunks, of links without code: also of output that is linked again, and one part for thunks and the linker's identity.
{"options":{"output":"partial","branch_range":2097153},"plan":{"page":1,"sections":[{"parts":[[16,false],[8,true],[1,false]]},{"parts":[[32,false]]}],"events":[["sec",0],["sec",1]],"primary":0,"singletons":0},"groups":[[{"kind":"prelude"}]]}
0 layout
section 0 index - mem 0x0 0 file 0x0 0 align 1 lma 0x0 attrs 0
section 1 index - mem 0x0 0 file 0x0 0 align 1 lma 0x0 attrs 0
part 0 mem 0x0 0 file 0x0 0 align 1
part 3 mem 0x0 0 file 0x0 0 align 1
entry -
end

{"options":{"branch_range":2097153},"plan":{"page":1,"sections":[{"parts":[[16,false],[8,true],[1,false]]},{"parts":[[32,false]]}],"events":[["sec",0],["sec",1]],"primary":0},"groups":[[{"kind":"prelude"}]]}
0 layout
section 0 index - mem 0x0 0 file 0x0 0 align 1 lma 0x0 attrs 0
section 1 index - mem 0x0 0 file 0x0 0 align 1 lma 0x0 attrs 0
part 0 mem 0x0 0 file 0x0 0 align 1
part 3 mem 0x0 0 file 0x0 0 align 1
entry -
end

{"options":{"branch_range":2097153},"plan":{"page":1,"sections":[{"parts":[[16,false],[8,true],[1,false]]},{"parts":[[32,false]]}],"events":[["sec",0],["sec",1]],"primary":2,"comment":2},"groups":[[{"kind":"prelude"}]]}
0 layout
section 0 index - mem 0x0 0 file 0x0 0 align 1 lma 0x0 attrs 0
section 1 index - mem 0x0 0 file 0x0 0 align 1 lma 0x0 attrs 0
part 0 mem 0x0 0 file 0x0 0 align 1
part 3 mem 0x0 0 file 0x0 0 align 1
entry -
end

# In a file's part: a section, a common, the thunks, then the next file, and behind all the sorted section.
{"options":{"branch_range":2097160,"entry":1},"plan":{"page":1,"sections":[{"attrs":1,"parts":[[4,false]]},{"attrs":1,"parts":[[1,false]]}],"segments":[{"kind":"load"}],"events":[["seg",0],["sec",0],["sec",1],["endseg",0]],"primary":0},"groups":[[{"kind":"prelude"}],[{"kind":"object","sections":[{"slot":"must","part":0,"size":8,"attrs":4,"relocs":[[0,"Relative",0,0,true]]},{"slot":"must","part":1,"size":2,"attrs":4},{"slot":"must","part":0,"name":"x","sorted":true,"size":4,"attrs":4},{"slot":"unloaded","part":0,"size":3000000,"attrs":4}],"symbols":[{"at":["undef"],"weak":true},{"at":["common",0,5]}]}],[{"kind":"object","sections":[{"slot":"must","part":0,"size":4}]}]]}
0 layout
section 0 index 0 mem 0x0 40 file 0x0 40 align 4 lma 0x0 attrs 5
section 1 index 1 mem 0x28 2 file 0x28 2 align 1 lma 0x28 attrs 5
part 0 mem 0x0 40 file 0x0 40 align 4
part 1 mem 0x28 2 file 0x28 2 align 1
segment 0 mem 0x0 42 file 0x0 42 align 4
live 1 0 0 0x0 8
live 1 0 1 0x28 2
live 1 0 2 0x24 4
live 2 0 0 0x20 4
block 0 1 0
thunk 0 0 0x10
symbol 0 0x0 16448 got - plt - dyn -
symbol 1 0x8 64 got - plt - dyn -
entry 0x8
end

# A thunk that the first object alone needs, for a symbol that another one stands for.
{"options":{"branch_range":2097156},"plan":{"page":1,"sections":[{"attrs":5,"parts":[[1,false]]}],"segments":[{"kind":"load"}],"events":[["seg",0],["sec",0],["endseg",0]],"primary":0},"groups":[[{"kind":"prelude"}],[{"kind":"object","sections":[{"slot":"must","part":0,"size":3,"attrs":4,"relocs":[[0,"Relative",0,0,true]]},{"slot":"unloaded","part":0,"size":3000000,"attrs":4}],"symbols":[{"at":["undef"],"def":1}]}],[{"kind":"object","sections":[{"slot":"must","part":0,"size":3,"attrs":4,"relocs":[[0,"Relative",0,0,true]]}],"symbols":[{"at":["sec",0,0]}]}]]}
0 layout
section 0 index 0 mem 0x0 22 file 0x0 22 align 1 lma 0x0 attrs 5
part 0 mem 0x0 22 file 0x0 22 align 1
segment 0 mem 0x0 22 file 0x0 22 align 1
live 1 0 0 0x0 3
live 2 0 0 0x13 3
block 0 1 0
thunk 0 1 0x3
symbol 1 0x13 16448 got - plt - dyn -
entry -
end

# An entry of the PLT before the code, one byte less than the range away. No thunk: the planning counts it from 0, and so near.
{"options":{"branch_range":2097252},"plan":{"page":1,"sections":[{"attrs":5,"parts":[[16,false]]},{"attrs":3,"parts":[[8,false]]},{"attrs":1,"parts":[[1,false]]},{"attrs":5,"parts":[[1,false]]}],"segments":[{"kind":"load"}],"events":[["seg",0],["sec",0],["sec",1],["sec",2],["sec",3],["endseg",0]],"plt":0,"got":1,"primary":3},"groups":[[{"kind":"prelude"}],[{"kind":"object","symbols":[{"at":["sec",1,4]}],"sections":[{"slot":"must","part":2,"size":2097227},{"slot":"must","part":3,"size":8,"attrs":4,"relocs":[[0,"PltRelative",0,0,true]]},{"slot":"unloaded","part":3,"size":2097252,"attrs":4}]}]]}
0 layout
section 0 index 0 mem 0x0 16 file 0x0 16 align 16 lma 0x0 attrs 5
section 1 index 1 mem 0x10 8 file 0x10 8 align 8 lma 0x10 attrs 3
section 2 index 2 mem 0x18 2097227 file 0x18 2097227 align 1 lma 0x18 attrs 1
section 3 index 3 mem 0x200063 8 file 0x200063 8 align 1 lma 0x200063 attrs 5
part 0 mem 0x0 16 file 0x0 16 align 16
part 1 mem 0x10 8 file 0x10 8 align 8
part 2 mem 0x18 2097227 file 0x18 2097227 align 1
part 3 mem 0x200063 8 file 0x200063 8 align 1
segment 0 mem 0x0 2097259 file 0x0 2097259 align 16
live 1 0 0 0x18 2097227
live 1 0 1 0x200063 8
block 0 1 0
symbol 0 0x200067 16768 got 0x10 plt 0x0 dyn -
entry -
end

# A range away, and with a thunk, since so much code stands before it.
{"options":{"branch_range":2097252},"plan":{"page":1,"sections":[{"attrs":5,"parts":[[16,false]]},{"attrs":3,"parts":[[8,false]]},{"attrs":5,"parts":[[1,false]]},{"attrs":5,"parts":[[1,false]]}],"segments":[{"kind":"load"}],"events":[["seg",0],["sec",0],["sec",1],["sec",2],["sec",3],["endseg",0]],"plt":0,"got":1,"primary":3},"groups":[[{"kind":"prelude"}],[{"kind":"object","symbols":[{"at":["sec",1,4]}],"sections":[{"slot":"must","part":2,"size":2097228},{"slot":"must","part":3,"size":8,"attrs":4,"relocs":[[0,"PltRelative",0,0,true]]},{"slot":"unloaded","part":3,"size":2097252,"attrs":4}]}]]}
0 layout
section 0 index 0 mem 0x0 16 file 0x0 16 align 16 lma 0x0 attrs 5
section 1 index 1 mem 0x10 8 file 0x10 8 align 8 lma 0x10 attrs 3
section 2 index 2 mem 0x18 2097228 file 0x18 2097228 align 1 lma 0x18 attrs 5
section 3 index 3 mem 0x200064 24 file 0x200064 24 align 1 lma 0x200064 attrs 5
part 0 mem 0x0 16 file 0x0 16 align 16
part 1 mem 0x10 8 file 0x10 8 align 8
part 2 mem 0x18 2097228 file 0x18 2097228 align 1
part 3 mem 0x200064 24 file 0x200064 24 align 1
segment 0 mem 0x0 2097276 file 0x0 2097276 align 16
live 1 0 0 0x18 2097228
live 1 0 1 0x200064 8
block 0 1 0
thunk 0 0 0x20006c
symbol 0 0x200068 16768 got 0x10 plt 0x0 dyn -
entry -
end

# An entry of the PLT behind the code, in range, and out of it with a thunk.
{"options":{"branch_range":2097252},"plan":{"page":1,"sections":[{"attrs":5,"parts":[[1,false]]},{"attrs":1,"parts":[[1,false]]},{"attrs":5,"parts":[[16,false]]},{"attrs":3,"parts":[[8,false]]}],"segments":[{"kind":"load"}],"events":[["seg",0],["sec",0],["sec",1],["sec",2],["sec",3],["endseg",0]],"plt":2,"got":3,"primary":0},"groups":[[{"kind":"prelude"}],[{"kind":"object","symbols":[{"at":["sec",0,4]}],"sections":[{"slot":"must","part":0,"size":8,"attrs":4,"relocs":[[0,"PltRelative",0,0,true]]},{"slot":"must","part":1,"size":2097240},{"slot":"unloaded","part":0,"size":2097252,"attrs":4}]}]]}
0 layout
section 0 index 0 mem 0x0 8 file 0x0 8 align 1 lma 0x0 attrs 5
section 1 index 1 mem 0x8 2097240 file 0x8 2097240 align 1 lma 0x8 attrs 1
section 2 index 2 mem 0x200060 16 file 0x200060 16 align 16 lma 0x200060 attrs 5
section 3 index 3 mem 0x200070 8 file 0x200070 8 align 8 lma 0x200070 attrs 3
part 0 mem 0x0 8 file 0x0 8 align 1
part 1 mem 0x8 2097240 file 0x8 2097240 align 1
part 2 mem 0x200060 16 file 0x200060 16 align 16
part 3 mem 0x200070 8 file 0x200070 8 align 8
segment 0 mem 0x0 2097272 file 0x0 2097272 align 16
live 1 0 0 0x0 8
live 1 0 1 0x8 2097240
block 0 1 0
symbol 0 0x4 16768 got 0x200070 plt 0x200060 dyn -
entry -
end

{"options":{"branch_range":2097252},"plan":{"page":1,"sections":[{"attrs":5,"parts":[[1,false]]},{"attrs":5,"parts":[[1,false]]},{"attrs":5,"parts":[[16,false]]},{"attrs":3,"parts":[[8,false]]}],"segments":[{"kind":"load"}],"events":[["seg",0],["sec",0],["sec",1],["sec",2],["sec",3],["endseg",0]],"plt":2,"got":3,"primary":0},"groups":[[{"kind":"prelude"}],[{"kind":"object","symbols":[{"at":["sec",0,4]}],"sections":[{"slot":"must","part":0,"size":8,"attrs":4,"relocs":[[0,"PltRelative",0,0,true]]},{"slot":"must","part":1,"size":2097241},{"slot":"unloaded","part":0,"size":2097252,"attrs":4}]}]]}
0 layout
section 0 index 0 mem 0x0 24 file 0x0 24 align 1 lma 0x0 attrs 5
section 1 index 1 mem 0x18 2097241 file 0x18 2097241 align 1 lma 0x18 attrs 5
section 2 index 2 mem 0x200080 16 file 0x200080 16 align 16 lma 0x200080 attrs 5
section 3 index 3 mem 0x200090 8 file 0x200090 8 align 8 lma 0x200090 attrs 3
part 0 mem 0x0 24 file 0x0 24 align 1
part 1 mem 0x18 2097241 file 0x18 2097241 align 1
part 2 mem 0x200080 16 file 0x200080 16 align 16
part 3 mem 0x200090 8 file 0x200090 8 align 8
segment 0 mem 0x0 2097304 file 0x0 2097304 align 16
live 1 0 0 0x0 8
live 1 0 1 0x18 2097241
block 0 1 0
thunk 0 0 0x8
symbol 0 0x4 16768 got 0x200090 plt 0x200080 dyn -
entry -
end

# Of other parts than that for thunks: the symbol is far, and its entry of the PLT is near.
{"options":{"branch_range":2097153},"plan":{"page":1,"sections":[{"attrs":5,"parts":[[1,false]]},{"attrs":5,"parts":[[16,false]]},{"attrs":3,"parts":[[8,false]]},{"attrs":1,"parts":[[1,false]]},{"attrs":5,"parts":[[1,false]]},{"attrs":5,"parts":[[1,false]]}],"segments":[{"kind":"load"}],"events":[["seg",0],["sec",0],["sec",1],["sec",2],["sec",3],["sec",4],["sec",5],["endseg",0]],"plt":1,"got":2,"primary":5},"groups":[[{"kind":"prelude"}],[{"kind":"object","symbols":[{"at":["sec",2,0]}],"sections":[{"slot":"must","part":0,"size":8,"attrs":4,"relocs":[[0,"PltRelative",0,0,true]]},{"slot":"must","part":3,"size":2097152},{"slot":"must","part":4,"size":1}]}]]}
0 layout
section 0 index 0 mem 0x0 8 file 0x0 8 align 1 lma 0x0 attrs 5
section 1 index 1 mem 0x10 16 file 0x10 16 align 16 lma 0x10 attrs 5
section 2 index 2 mem 0x20 8 file 0x20 8 align 8 lma 0x20 attrs 3
section 3 index 3 mem 0x28 2097152 file 0x28 2097152 align 1 lma 0x28 attrs 1
section 4 index 4 mem 0x200028 1 file 0x200028 1 align 1 lma 0x200028 attrs 5
section 5 index - mem 0x200029 0 file 0x200029 0 align 1 lma 0x200029 attrs 5
part 0 mem 0x0 8 file 0x0 8 align 1
part 1 mem 0x10 16 file 0x10 16 align 16
part 2 mem 0x20 8 file 0x20 8 align 8
part 3 mem 0x28 2097152 file 0x28 2097152 align 1
part 4 mem 0x200028 1 file 0x200028 1 align 1
part 5 mem 0x200029 0 file 0x200029 0 align 1
segment 0 mem 0x0 2097193 file 0x0 2097193 align 16
live 1 0 0 0x0 8
live 1 0 1 0x28 2097152
live 1 0 2 0x200028 1
symbol 0 0x200028 384 got 0x20 plt 0x10 dyn -
entry -
end

# What is known only when the program runs may be anywhere, and so may what nothing asks for: an absolute number, a symbol of a dynamic file, one that is discarded, and one that is left out. A common and merged data are near.
{"options":{"branch_range":2097153},"plan":{"page":1,"base":["num",4194304],"sections":[{"attrs":5,"parts":[[1,false]]},{"attrs":1,"parts":[[1,false]]},{"attrs":5,"parts":[[1,false]]}],"segments":[{"kind":"load"}],"events":[["seg",0],["sec",0],["sec",1],["sec",2],["endseg",0]],"primary":2},"groups":[[{"kind":"prelude"}],[{"kind":"object","sections":[{"slot":"must","part":0,"size":8,"attrs":4,"relocs":[[0,"Relative",0,0,true],[1,"Relative",1,0,true],[2,"None",2,0,true],[3,"None",3,0,true],[4,"Relative",4,0,true],[5,"Relative",5,0,true]]},{"slot":"discard","part":2,"size":1},{"slot":"unloaded","part":2,"size":1},{"slot":"merge","part":1,"size":2,"data":"6100","strings":true}],"symbols":[{"at":["abs",5],"flags":1},{"at":["undef"],"def":6},{"at":["sec",1,0]},{"at":["sec",2,0]},{"at":["common",1,4]},{"at":["sec",3,0],"name":"m"}]}],[{"kind":"dynamic","symbols":[{"at":["dyn"],"flags":2}]}]]}
0 layout
section 0 index 0 mem 0x400000 8 file 0x0 8 align 1 lma 0x400000 attrs 5
section 1 index 1 mem 0x400008 6 file 0x8 6 align 1 lma 0x400008 attrs 1
section 2 index - mem 0x40000e 0 file 0xe 0 align 1 lma 0x40000e attrs 5
part 0 mem 0x400000 8 file 0x0 8 align 1
part 1 mem 0x400008 6 file 0x8 6 align 1
part 2 mem 0x40000e 0 file 0xe 0 align 1
segment 0 mem 0x400000 14 file 0x0 14 align 1
live 1 0 0 0x400000 8
merged 1 2 1 1 2 0x400008
piece 1 0x400008 2
symbol 0 0x5 65 got - plt - dyn -
symbol 4 0x40000a 64 got - plt - dyn -
symbol 5 0x400008 64 got - plt - dyn -
symbol 6 0x0 66 got - plt - dyn -
entry -
end"#;

#[test]
fn thunks_are_told_where_they_stand(rt: HostRuntime) -> Result<(), Fail> {
    expect_reports(&rt, rt.alloc(), REPORTED)
}

/// Ones that are refused.
const REFUSED: &str = r#"# A weak symbol that is undefined is looked for at 0.
{"plan":{"page":16,"sections":[{"attrs":5,"parts":[[1,false]]}],"segments":[{"kind":"load"}],"events":[["seg",0],["sec",0],["endseg",0]],"primary":0,"base":["num",4194304]},"groups":[[{"kind":"prelude"}],[{"kind":"object","sections":[{"slot":"must","part":0,"size":4,"attrs":4,"relocs":[[0,"Relative",0,0,true]]}],"symbols":[{"at":["undef"],"weak":true}]}]],"options":{"branch_range":3145728}} => 1 out of reach: branch 1 0 0 0
# A branch of another part to another part, without a thunk.
{"options":{"branch_range":3145728},"plan":{"page":16,"sections":[{"attrs":5,"parts":[[1,false]]},{"attrs":5,"parts":[[1,false]]},{"attrs":5,"parts":[[1,false]]}],"segments":[{"kind":"load"}],"events":[["seg",0],["sec",0],["sec",1],["sec",2],["endseg",0]],"primary":1},"groups":[[{"kind":"prelude"}],[{"kind":"object","symbols":[{"at":["sec",2,0]}],"sections":[{"slot":"must","part":0,"attrs":4,"size":4,"relocs":[[0,"Relative",0,0,true]]},{"slot":"must","part":1,"attrs":4,"size":4000000},{"slot":"must","part":2,"attrs":4,"size":4}]}]]} => 1 out of reach: branch 1 0 0 0
# Thunks pass the greatest sum of sizes.
{"options":{"branch_range":2097153},"plan":{"page":16,"sections":[{"attrs":5,"parts":[[1,false]]},{"attrs":5,"parts":[[1,false]]}],"segments":[{"kind":"load"}],"events":[["seg",0],["sec",0],["sec",1],["endseg",0]],"primary":1},"groups":[[{"kind":"prelude"}],[{"kind":"object","sections":[{"slot":"must","part":0,"size":18446744073709551600,"attrs":4,"relocs":[[0,"Relative",0,0,true]]},{"slot":"must","part":1,"size":8,"attrs":4}],"symbols":[{"at":["sec",1,0],"flags":4}]}]]} => 1 address overflow: part 1
# Sizes that fit without thunks, and not with them.
{"options":{"branch_range":2097153},"plan":{"page":1,"sections":[{"attrs":5,"parts":[[1,false]]},{"attrs":1,"parts":[[1,false]]}],"segments":[{"kind":"load"}],"events":[["seg",0],["sec",0],["sec",1],["endseg",0]],"primary":0},"groups":[[{"kind":"prelude"}],[{"kind":"object","sections":[{"slot":"must","part":0,"size":4,"attrs":4,"relocs":[[0,"Relative",0,0,true]]},{"slot":"must","part":1,"size":18446744073709551605},{"slot":"unloaded","part":0,"size":3000000,"attrs":4}],"symbols":[{"at":["undef"],"weak":true}]}]]} => 1 address overflow: part 1
# A branch goes to the entry of the PLT, where there is one: here it stands before the code, a range away. There is no thunk, since the planning counts it from 0, and so near.
@ {"options":{"branch_range":2097252},"plan":{"page":1,"sections":[{"attrs":5,"parts":[[16,false]]},{"attrs":3,"parts":[[8,false]]},{"attrs":1,"parts":[[1,false]]},{"attrs":5,"parts":[[1,false]]}],"segments":[{"kind":"load"}],"events":[["seg",0],["sec",0],["sec",1],["sec",2],["sec",3],["endseg",0]],"plt":0,"got":1,"primary":3},"groups":[[{"kind":"prelude"}],[{"kind":"object","symbols":[{"at":["sec",1,4]}],"sections":[{"slot":"must","part":2,"size":...,true]]},{"slot":"unloaded","part":3,"size":2097252,"attrs":4}]}]]}
2097228},{"slot":"must","part":3,"size":8,"attrs":4,"relocs":[[0,"PltRelative",0,0 => 1 out of reach: branch 1 0 1 0
# The same behind the code.
@ {"options":{"branch_range":2097252},"plan":{"page":1,"sections":[{"attrs":5,"parts":[[1,false]]},{"attrs":1,"parts":[[1,false]]},{"attrs":5,"parts":[[16,false]]},{"attrs":3,"parts":[[8,false]]}],"segments":[{"kind":"load"}],"events":[["seg",0],["sec",0],["sec",1],["sec",2],["sec",3],["endseg",0]],"plt":2,"got":3,"primary":0},"groups":[[{"kind":"prelude"}],[{"kind":"object","symbols":[{"at":["sec",0,4]}],"sections":[{"slot":"must","part":0,"size":8,"attrs":4,"relocs":[[0,"PltRelative",0,0,true]]},{"slot":"must","part":1,"size":...},{"slot":"unloaded","part":0,"size":2097252,"attrs":4}]}]]}
2097241 => 1 out of reach: branch 1 0 0 0
# From another part than that for thunks: the symbol is near, and its entry is not; and the other way.
@ {"options":{"branch_range":2097153},"plan":{"page":1,"sections":[{"attrs":5,"parts":[[1,false]]},{"attrs":1,"parts":[[1,false]]},{"attrs":5,"parts":[[16,false]]},{"attrs":3,"parts":[[8,false]]},{"attrs":5,"parts":[[1,false]]}],"segments":[{"kind":"load"}],"events":[["seg",0],["sec",0],["sec",1],["sec",2],["sec",3],["sec",4],["endseg",0]],"plt":2,"got":3,"primary":4},"groups":[[{"kind":"prelude"}],[{"kind":"object","symbols":[{"at":["sec",0,4],"name":"f"...}],"sections":[{"slot":"must","part":0,"size":8,"attrs":4,"relocs":[[4,"None",0,0,true],[0,"PltRelative",0,0,true]]},{"slot":"must","part":1,"size":2097152}]}]]}
 | ,"flags":1 | ,"flags":2 | ,"flags":4 => 1 out of reach: branch 1 0 0 0
@ {"options":{"branch_range":2097153},"plan":{"page":1,"sections":[{"attrs":5,"parts":[[1,false]]},{"attrs":5,"parts":[[16,false]]},{"attrs":3,"parts":[[8,false]]},{"attrs":1,"parts":[[1,false]]},{"attrs":5,"parts":[[1,false]]},{"attrs":5,"parts":[[1,false]]}],"segments":[{"kind":"load"}],"events":[["seg",0],["sec",0],["sec",1],["sec",2],["sec",3],["sec",4],["sec",5],["endseg",0]],"plt":1,"got":2,"primary":5},"groups":[[{"kind":"prelude"}],[{"kind":"object","symbols":[{"at":["sec",2,0]}],"sections":[{"slot":"must","part":0,"size":8,"attrs":4,"relocs":[[0,"...",0,0,true]]},{"slot":"must","part":3,"size":2097152},{"slot":"must","part":4,"size":1}]}]]}
Relative | Got => 1 out of reach: branch 1 0 0 0
# What has no entry, and is known when linking, has to be near: an absolute number, a common, what isn't defined, one that a dynamic file defines without saying so, merged data, also where it has no name and so is at 0, and debug data.
@ {"options":{"branch_range":2097153},"plan":{"page":1,"base":["num",4194304],"sections":[{"attrs":5,"parts":[[1,false]]},{"attrs":1,"parts":[[1,false]]},{"attrs":1,"parts":[[1,false]]},{"attrs":5,"parts":[[1,false]]},{"attrs":0,"parts":[[1,false]]}],"segments":[{"kind":"load"}],"events":[["seg",0],["sec",0],["sec",1],["sec",2],["sec",3],["endseg",0],["sec",4]],"primary":3},"groups":[[{"kind":"prelude"}],[{"kind":"object","sections":[{"slot":"must","part":0,"size":8,"attrs":4,"relocs":[[0,"Relative",0,0,true]]},{"slot":"must","part":1,"size":2097152},{"slot":"merge","part":2,"size":2,"data":"6100","strings":true},{"slot":"debug","part":4,"size":3}],"symbols":[{...}]}]]}
"at":["abs",5] | "at":["abs",2097151] | "at":["abs",6291457] | "at":["common",2,4] | "at":["undef"],"weak":true | "at":["sec",2,0],"name":"m" | "at":["sec",2,0] | "at":["sec",3,0] => 1 out of reach: branch 1 0 0 0
"at":["undef"],"def":1}]}],[{"kind":"dynamic","symbols":[{"at":["dyn"] | "at":["undef"],"def":1}]}],[{"kind":"dynamic","symbols":[{"at":["dyn"],"flags":4 => 1 out of reach: branch 1 0 0 0
"#;

#[test]
fn branches_that_reach_nothing_are_refused(rt: HostRuntime) -> Result<(), Fail> {
    expect_rows(&rt, rt.alloc(), Asked::Run, REFUSED)
}
