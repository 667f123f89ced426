//! Sections that are put in order by their names, and output that is linked again.

use crate::runs::expect_reports;
use std::test::Fail;

/// Descriptions with their reports.
const REPORTED: &str =
    r#"# Sorted sections of two files, of one name among them: by the bytes of their names, and then by file.
{"plan":{"page":4096,"base":["num",4096],"sections":[{"attrs":1,"parts":[[4,false]]}],"segments":[{"kind":"load"}],"events":[["seg",0],["sec",0],["endseg",0]]},"groups":[[{"kind":"prelude"}],[{"kind":"object","sections":[{"slot":"must","size":4,"sorted":true,"name":".init.2"},{"slot":"must","size":4,"sorted":true,"name":".init.1"}]},{"kind":"object","sections":[{"slot":"must","size":4,"sorted":true,"name":".init.1"}]}]]}
0 layout
section 0 index 0 mem 0x1000 12 file 0x0 12 align 4 lma 0x1000 attrs 1
part 0 mem 0x1000 12 file 0x0 12 align 4
segment 0 mem 0x1000 12 file 0x0 12 align 4
live 1 0 0 0x1008 4
live 1 0 1 0x1000 4
live 1 1 0 0x1004 4
entry -
end

# Two of one name in one file: by index, behind the one that isn't sorted.
{"plan":{"page":16,"base":["num",4096],"sections":[{"attrs":1,"parts":[[4,false]]}],"segments":[{"kind":"load"}],"events":[["seg",0],["sec",0],["endseg",0]]},"groups":[[{"kind":"prelude"}],[{"kind":"object","sections":[{"slot":"must","size":4,"sorted":true,"name":"same"},{"slot":"must","size":2,"sorted":true,"name":"same"},{"slot":"must","size":1}]}]]}
0 layout
section 0 index 0 mem 0x1000 12 file 0x0 12 align 4 lma 0x1000 attrs 1
part 0 mem 0x1000 12 file 0x0 12 align 4
segment 0 mem 0x1000 12 file 0x0 12 align 4
live 1 0 0 0x1004 4
live 1 0 1 0x1008 2
live 1 0 2 0x1000 1
entry -
end

# Behind commons and the sections of later files, in each part for itself; an empty one moves nothing.
{"plan":{"page":16,"sections":[{"attrs":1,"parts":[[4,false],[2,false]]}],"segments":[{"kind":"load"}],"events":[["seg",0],["sec",0],["endseg",0]]},"groups":[[{"kind":"prelude"}],[{"kind":"object","sections":[{"slot":"must","part":1,"size":2,"name":"b","sorted":true},{"slot":"must","part":0,"size":4,"name":"a","sorted":true},{"slot":"must","part":0,"size":3}],"symbols":[{"at":["common",0,4]}]}],[{"kind":"object","sections":[{"slot":"must","part":0,"size":1},{"slot":"unloaded","part":0,"size":9,"name":"a","sorted":true},{"slot":"must","part":0,"size":0,"name":"","sorted":true}]}]],"options":{"entry":0}}
0 layout
section 0 index 0 mem 0x0 18 file 0x0 18 align 4 lma 0x0 attrs 1
part 0 mem 0x0 16 file 0x0 16 align 4
part 1 mem 0x10 2 file 0x10 2 align 2
segment 0 mem 0x0 18 file 0x0 18 align 4
live 1 0 0 0x10 2
live 1 0 1 0xc 4
live 1 0 2 0x0 3
live 2 0 0 0x8 1
live 2 0 2 0xc 0
symbol 0 0x4 64 got - plt - dyn -
entry 0x4
end

# Singletons of two groups, one of them without bytes, behind four emitted sections.
{"options":{"output":"partial"},"plan":{"page":1,"sections":[{"attrs":1,"parts":[[1,false]],"emit":"always"},{"attrs":1,"parts":[[1,false]],"emit":"always"},{"attrs":7,"parts":[[1,false]],"emit":"always"},{"parts":[[1,false]],"emit":"always"},{"parts":[[1,false]],"emit":"always"}],"events":[["sec",0],["sec",1],["sec",2],["sec",3],["sec",4]],"singletons":2},"groups":[[{"kind":"prelude"}],[{"kind":"object","sections":[{"slot":"must","part":2,"size":1,"attrs":4},{"slot":"unloaded","part":2,"size":1},{"slot":"must","part":2,"size":2}]}],[{"kind":"object","sections":[{"slot":"must","part":2,"size":3}]}]]}
0 layout
section 0 index 0 mem 0x0 0 file 0x0 0 align 1 lma 0x0 attrs 1
section 1 index 1 mem 0x0 0 file 0x0 0 align 1 lma 0x0 attrs 1
section 2 index - mem 0x0 6 file 0x0 6 align 1 lma 0x0 attrs 0
section 3 index 2 mem 0x0 0 file 0x6 0 align 1 lma 0x0 attrs 0
section 4 index 3 mem 0x0 0 file 0x6 0 align 1 lma 0x0 attrs 0
part 0 mem 0x0 0 file 0x0 0 align 1
part 1 mem 0x0 0 file 0x0 0 align 1
part 2 mem 0x0 6 file 0x0 6 align 1
part 3 mem 0x0 0 file 0x6 0 align 1
part 4 mem 0x0 0 file 0x6 0 align 1
live 1 0 0 0x0 1
live 1 0 2 0x1 2
live 2 0 0 0x3 3
single 1 0 0 4
single 1 0 2 5
single 2 0 0 6
entry -
end

# A local symbol for the section that is emitted, and one for the singleton, which a common of its section isn't.
{"options":{"output":"partial"},"plan":{"page":16,"sections":[{"name":"a","attrs":1,"parts":[[8,false]]},{"name":"t","attrs":0,"parts":[[8,false]]},{"name":"s","attrs":7,"parts":[[4,false]]},{"name":"z","attrs":1,"parts":[[1,false]],"primary":2}],"events":[["sec",0],["sec",1],["sec",2],["sec",3]],"singletons":2,"symtab_local":1},"groups":[[{"kind":"prelude"}],[{"kind":"object","sections":[{"slot":"must","part":0,"size":4},{"slot":"must","part":2,"size":3,"name":"one"},{"slot":"must","part":3,"size":5}],"symbols":[{"at":["common",2,8],"name":"c"}]}]]}
0 layout
section 0 index 0 mem 0x0 8 file 0x0 8 align 8 lma 0x0 attrs 1
section 1 index - mem 0x0 72 file 0x8 72 align 8 lma 0x0 attrs 0
section 2 index - mem 0x0 4 file 0x50 4 align 4 lma 0x0 attrs 0
section 3 index - mem 0x0 5 file 0x54 5 align 1 lma 0x0 attrs 1
part 0 mem 0x0 8 file 0x0 8 align 8
part 1 mem 0x0 72 file 0x8 72 align 8
part 2 mem 0x0 4 file 0x50 4 align 4
part 3 mem 0x0 5 file 0x54 5 align 1
live 1 0 0 0x0 4
live 1 0 1 0x0 3
live 1 0 2 0x0 5
single 1 0 1 1
entry -
end"#;

#[test]
fn sorted_sections_and_singletons_are_told(rt: HostRuntime) -> Result<(), Fail> {
    expect_reports(&rt, rt.alloc(), REPORTED)
}
