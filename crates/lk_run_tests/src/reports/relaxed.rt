//! Links that are relaxed.

use crate::rows::{Asked, expect_rows};
use crate::runs::expect_reports;
use std::test::Fail;

/// Descriptions with their reports.
const REPORTED: &str =
    r#"# Symbols stand where their offsets go: behind what is deleted, and in it at its start.
{"options":{"relax":true},"plan":{"page":1,"base":["num",4096],"sections":[{"attrs":5,"parts":[[1,false]]},{"attrs":1,"parts":[[1,false]]}],"segments":[{"kind":"load"}],"events":[["seg",0],["sec",0],["sec",1],["endseg",0]]},"groups":[[{"kind":"prelude"}],[{"kind":"object","sections":[{"slot":"must","part":0,"size":16,"attrs":4,"relax":[[4,0,100,4]]},{"slot":"must","part":1,"size":4,"relocs":[[0,"Absolute",1,0,false],[0,"Absolute",2,0,false],[0,"Absolute",3,0,false],[0,"Absolute",4,0,false]]}],"symbols":[{"at":["sec",1,0]},{"at":["sec",0,4]},{"at":["sec",0,6]},{"at":["sec",0,8]},{"at":["sec",0,16]}]}]]}
0 layout
section 0 index 0 mem 0x1000 12 file 0x0 12 align 1 lma 0x1000 attrs 5
section 1 index 1 mem 0x100c 4 file 0xc 4 align 1 lma 0x100c attrs 1
part 0 mem 0x1000 12 file 0x0 12 align 1
part 1 mem 0x100c 4 file 0xc 4 align 1
segment 0 mem 0x1000 16 file 0x0 16 align 1
live 1 0 0 0x1000 12
live 1 0 1 0x100c 4
symbol 1 0x1004 64 got - plt - dyn -
symbol 2 0x1004 64 got - plt - dyn -
symbol 3 0x1004 64 got - plt - dyn -
symbol 4 0x100c 64 got - plt - dyn -
entry -
end

# Where all is near enough at last.
{"options":{"relax":true},"plan":{"page":4096,"base":["num",4096],"sections":[{"attrs":5,"parts":[[1,false]]},{"attrs":5,"parts":[[64,false]]}],"segments":[{"kind":"load"}],"events":[["seg",0],["sec",0],["sec",1],["endseg",0]]},"groups":[[{"kind":"prelude"}],[{"kind":"object","sections":[{"slot":"must","part":0,"size":8,"attrs":4,"relax":[[0,0,100,4]]},{"slot":"must","part":0,"size":8,"attrs":4,"relax":[[4,1,56,4]]},{"slot":"must","part":1,"size":16,"attrs":4}],"symbols":[{"at":["sec",1,0]},{"at":["sec",2,0]}]}]]}
0 layout
section 0 index 0 mem 0x1000 8 file 0x0 8 align 1 lma 0x1000 attrs 5
section 1 index 1 mem 0x1040 64 file 0x40 64 align 64 lma 0x1040 attrs 5
part 0 mem 0x1000 8 file 0x0 8 align 1
part 1 mem 0x1040 64 file 0x40 64 align 64
segment 0 mem 0x1000 128 file 0x0 128 align 64
live 1 0 0 0x1000 4
live 1 0 1 0x1004 4
live 1 0 2 0x1040 16
entry -
end

# A section that falls out of the list, and a chain in which each pass lets a further candidate go.
{"options":{"relax":true},"plan":{"page":1,"sections":[{"attrs":5,"parts":[[1,false]]}],"segments":[{"kind":"load"}],"events":[["seg",0],["sec",0],["endseg",0]]},"groups":[[{"kind":"prelude"}],[{"kind":"object","sections":[{"slot":"must","size":4,"attrs":4,"relax":[[0,0,7,1]]},{"slot":"must","size":8,"attrs":4,"relax":[[0,0,6,1],[4,0,5,4]]},{"slot":"must","size":1}],"symbols":[{"at":["sec",2,0]}]}]]}
0 layout
section 0 index 0 mem 0x0 8 file 0x0 8 align 1 lma 0x0 attrs 5
part 0 mem 0x0 8 file 0x0 8 align 1
segment 0 mem 0x0 8 file 0x0 8 align 1
live 1 0 0 0x0 4
live 1 0 1 0x4 3
live 1 0 2 0x7 1
entry -
end

{"options":{"relax":true},"plan":{"page":1,"sections":[{"attrs":5,"parts":[[1,false]]}],"segments":[{"kind":"load"}],"events":[["seg",0],["sec",0],["endseg",0]]},"groups":[[{"kind":"prelude"}],[{"kind":"object","sections":[{"slot":"must","size":20,"attrs":4,"relax":[[0,0,15,4],[4,0,15,4],[8,0,12,2]]}],"symbols":[{"at":["sec",0,20]}]}]]}
0 layout
section 0 index 0 mem 0x0 10 file 0x0 10 align 1 lma 0x0 attrs 5
part 0 mem 0x0 10 file 0x0 10 align 1
segment 0 mem 0x0 10 file 0x0 10 align 1
live 1 0 0 0x0 10
entry -
end

# Branches stand where their offsets go: one is nearer by what is deleted before it, and another by thunks.
{"options":{"relax":true,"branch_range":2097153},"plan":{"page":1,"sections":[{"attrs":5,"parts":[[1,false]]}],"segments":[{"kind":"load"}],"events":[["seg",0],["sec",0],["endseg",0]],"primary":0},"groups":[[{"kind":"prelude"}],[{"kind":"object","sections":[{"slot":"must","part":0,"size":4194304,"attrs":4,"relax":[[0,1,18446744073709551615,2097152]],"relocs":[[2097156,"Relative",0,0,true]]}],"symbols":[{"at":["sec",0,4194300]},{"at":["abs",1]}]}]]}
0 layout
section 0 index 0 mem 0x0 2097168 file 0x0 2097168 align 1 lma 0x0 attrs 5
part 0 mem 0x0 2097168 file 0x0 2097168 align 1
segment 0 mem 0x0 2097168 file 0x0 2097168 align 1
live 1 0 0 0x0 2097152
block 0 1 0
thunk 0 0 0x200000
symbol 0 0x1ffffc 16448 got - plt - dyn -
entry -
end

# The owner of a block of thunks gets smaller pass by pass: its thunks come nearer with what stands behind them, and each pass lets a further candidate go.
{"options":{"relax":true,"branch_range":2097153},"plan":{"page":1,"sections":[{"attrs":5,"parts":[[1,false]]}],"segments":[{"kind":"load"}],"events":[["seg",0],["sec",0],["endseg",0]],"primary":0},"groups":[[{"kind":"prelude"}],[{"kind":"object","symbols":[{"at":["undef"],"def":2},{"at":["abs",4000000]}],"sections":[{"slot":"must","size":20,"attrs":4,"relax":[[0,0,31,4],[4,0,31,4],[8,0,28,2]],"relocs":[[16,"Relative",1,0,true]]},{"slot":"unloaded","size":3000000,"attrs":4}]}],[{"kind":"object","symbols":[{"at":["sec",0,0]}],"sections":[{"slot":"must","size":4,"attrs":4,"relocs":[[0,"Relative",0,0,false]]}]}]]}
0 layout
section 0 index 0 mem 0x0 30 file 0x0 30 align 1 lma 0x0 attrs 5
part 0 mem 0x0 30 file 0x0 30 align 1
segment 0 mem 0x0 30 file 0x0 30 align 1
live 1 0 0 0x0 10
live 2 0 0 0x1a 4
block 0 1 0
block 1 2 0
thunk 0 1 0xa
symbol 1 0x3d0900 16448 got - plt - dyn -
symbol 2 0x1a 64 got - plt - dyn -
entry -
end

# A redirect reads final sizes and values, and an edge the end behind what is deleted.
{"options":{"relax":true},"plan":{"page":1,"base":["num",4096],"sections":[{"attrs":5,"parts":[[1,false]]},{"attrs":1,"parts":[[1,false]]}],"segments":[{"kind":"load"}],"events":[["seg",0],["sec",0],["sec",1],["endseg",0]]},"groups":[[{"kind":"prelude","symbols":[{"at":["end",0],"name":"etext"}]}],[{"kind":"script","symbols":[{"at":["redirect",["add",["sizeof",0],["sym",2]],["none"],false],"name":"x"}]}],[{"kind":"object","sections":[{"slot":"must","part":0,"size":16,"attrs":4,"relax":[[4,0,18446744073709551615,4]]},{"slot":"must","part":1,"size":4}],"symbols":[{"at":["sec",0,16]}]}]]}
0 layout
section 0 index 0 mem 0x1000 12 file 0x0 12 align 1 lma 0x1000 attrs 5
section 1 index 1 mem 0x100c 4 file 0xc 4 align 1 lma 0x100c attrs 1
part 0 mem 0x1000 12 file 0x0 12 align 1
part 1 mem 0x100c 4 file 0xc 4 align 1
segment 0 mem 0x1000 16 file 0x0 16 align 1
live 2 0 0 0x1000 12
live 2 0 1 0x100c 4
symbol 0 0x100c 64 got - plt - dyn -
symbol 1 0x1018 8256 got - plt - dyn -
symbol 2 0x100c 64 got - plt - dyn -
entry -
end

# Nothing is deleted of what nobody asks to relax.
{"options":{},"plan":{"page":1,"base":["num",4096],"sections":[{"attrs":5,"parts":[[1,false]]},{"attrs":1,"parts":[[1,false]]}],"segments":[{"kind":"load"}],"events":[["seg",0],["sec",0],["sec",1],["endseg",0]]},"groups":[[{"kind":"prelude"}],[{"kind":"object","sections":[{"slot":"must","part":0,"size":16,"attrs":4,"relax":[[4,0,100,4]]},{"slot":"must","part":1,"size":4}],"symbols":[{"at":["sec",1,0]}]}]]}
0 layout
section 0 index 0 mem 0x1000 16 file 0x0 16 align 1 lma 0x1000 attrs 5
section 1 index 1 mem 0x1010 4 file 0x10 4 align 1 lma 0x1010 attrs 1
part 0 mem 0x1000 16 file 0x0 16 align 1
part 1 mem 0x1010 4 file 0x10 4 align 1
segment 0 mem 0x1000 20 file 0x0 20 align 1
live 1 0 0 0x1000 16
live 1 0 1 0x1010 4
entry -
end"#;

#[test]
fn relaxed_links_are_laid_out(rt: HostRuntime) -> Result<(), Fail> {
    expect_reports(&rt, rt.alloc(), REPORTED)
}

/// Descriptions of which some candidate is too far away at last, or a later walk is refused.
const REFUSED: &str = r#"
# Too far at last; behind branches that don't reach.
{"options":{"relax":true},"plan":{"page":4096,"base":["num",4096],"sections":[{"attrs":5,"parts":[[1,false]]},{"attrs":5,"parts":[[64,false]]}],"segments":[{"kind":"load"}],"events":[["seg",0],["sec",0],["sec",1],["endseg",0]]},"groups":[[{"kind":"prelude"}],[{"kind":"object","sections":[{"slot":"must","part":0,"size":8,"attrs":4,"relax":[[0,0,100,4]]},{"slot":"must","part":0,"size":8,"attrs":4,"relax":[[4,1,52,4]]},{"slot":"must","part":1,"size":16,"attrs":4}],"symbols":[{"at":["sec",1,0]},{"at":["sec",2,0]}]}]]} => 1 out of reach: relaxed 1 0 1 0
{"options":{"relax":true,"branch_range":2097153},"plan":{"page":1,"sections":[{"attrs":5,"parts":[[1,false]]}],"segments":[{"kind":"load"}],"events":[["seg",0],["sec",0],["endseg",0]],"primary":0},"groups":[[{"kind":"prelude"}],[{"kind":"object","sections":[{"slot":"must","part":0,"size":4194304,"attrs":4,"relax":[[0,1,18446744073709551615,2]],"relocs":[[4,"Relative",0,0,true]]}],"symbols":[{"at":["sec",0,4194300]},{"at":["abs",1]}]}]]} => 1 out of reach: branch 1 0 0 0
# A walk behind a pass may be refused where the first one was not.
{"options":{"relax":true},"plan":{"page":16,"sections":[{"attrs":5,"parts":[[1,false]]},{"attrs":1,"parts":[[1,false]]}],"segments":[{"kind":"load"}],"events":[["seg",0],["sec",0],["addr",["sub",["mul",["num",2],["sym",0]],["num",8]]],["sec",1],["endseg",0]]},"groups":[[{"kind":"prelude"}],[{"kind":"object","sections":[{"slot":"must","part":0,"size":8,"attrs":4,"relax":[[0,0,999,4]]},{"slot":"must","part":1,"size":1}],"symbols":[{"at":["sec",0,8]}]}]]} => 1 Cannot move location counter backwards (from 0x4 to 0x0)
# Limits, rules and references come before it.
{"options":{"relax":true},"plan":{"page":3},"groups":[[{"kind":"prelude"}]]} => 1 bad link: rule 2, plan
"#;

#[test]
fn relaxed_links_are_refused(rt: HostRuntime) -> Result<(), Fail> {
    expect_rows(&rt, rt.alloc(), Asked::Run, REFUSED)
}
