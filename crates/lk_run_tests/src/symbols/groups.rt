//! Runs over links with section groups, debug data, and files that are neither prelude nor object.

use crate::runs::expect_reports;
use std::test::Fail;

/// What stands behind the prelude's group in a description of one output section, with its report.
const KEPT: &str =
    r#"@ {"plan":{"page":16,"sections":[{"attrs":1,"parts":[[1,false]]}],"segments":[{"kind":"load"}],"events":[["seg",0],["sec",0],["endseg",0]]},"groups":[[{"kind":"prelude"}],...}

# Debug data that is kept in any case brings code of its group along, and follows no relocation.
[{"kind":"object","symbols":[{"at":["sec",2,0]}],"sections":[{"slot":"mustdebug","size":1,"group":0,"relocs":[[0,"Absolute",0,0,false]]},{"slot":"unloaded","size":2,"group":0},{"slot":"unloaded","size":4}]}]]
0 layout
section 0 index 0 mem 0x0 3 file 0x0 3 align 1 lma 0x0 attrs 1
part 0 mem 0x0 3 file 0x0 3 align 1
segment 0 mem 0x0 3 file 0x0 3 align 1
live 1 0 0 0x0 1
live 1 0 1 0x1 2
entry -
end

# A merged section brings nothing of its group along.
[{"kind":"object","symbols":[{"name":"m","at":["sec",1,0]}],"sections":[{"slot":"must","size":1,"relocs":[[0,"Absolute",0,0,false]]},{"slot":"merge","data":"00","group":0},{"slot":"unloaded","size":2,"group":0}]}]]
0 layout
section 0 index 0 mem 0x0 2 file 0x0 2 align 1 lma 0x0 attrs 1
part 0 mem 0x0 2 file 0x0 2 align 1
segment 0 mem 0x0 2 file 0x0 2 align 1
live 1 0 0 0x1 1
merged 0 1 1 1 1 0x0
piece 0 0x0 1
symbol 0 0x0 64 got - plt - dyn -
entry -
end

# The others of a group come along, but for what is discarded.
[{"kind":"object","sections":[{"slot":"unloaded","size":1,"group":5},{"slot":"must","size":2,"group":5},{"slot":"debug","size":4,"group":5},{"slot":"unloaded","size":8,"group":6},{"slot":"discard","group":5},{"slot":"debug","size":16}]}]]
0 layout
section 0 index 0 mem 0x0 7 file 0x0 7 align 1 lma 0x0 attrs 1
part 0 mem 0x0 7 file 0x0 7 align 1
segment 0 mem 0x0 7 file 0x0 7 align 1
live 1 0 0 0x0 1
live 1 0 1 0x1 2
live 1 0 2 0x3 4
entry -
end

# A group is of one file: what has its number in another file stays out.
[{"kind":"object","sections":[{"slot":"must","size":1,"group":4294967295},{"slot":"unloaded","size":2,"group":4294967295}]},{"kind":"object","sections":[{"slot":"unloaded","size":4,"group":4294967295}]}]]
0 layout
section 0 index 0 mem 0x0 3 file 0x0 3 align 1 lma 0x0 attrs 1
part 0 mem 0x0 3 file 0x0 3 align 1
segment 0 mem 0x0 3 file 0x0 3 align 1
live 1 0 0 0x0 1
live 1 0 1 0x1 2
entry -
end

# Debug data without bytes keeps no output section; code without bytes does.
[{"kind":"object","sections":[{"slot":"mustdebug"}]}]]
0 layout
section 0 index - mem 0x0 0 file 0x0 0 align 1 lma 0x0 attrs 1
part 0 mem 0x0 0 file 0x0 0 align 1
live 1 0 0 0x0 0
entry -
end

[{"kind":"object","sections":[{"slot":"mustdebug","group":0},{"slot":"unloaded","group":0}]}]]
0 layout
section 0 index 0 mem 0x0 0 file 0x0 0 align 1 lma 0x0 attrs 1
part 0 mem 0x0 0 file 0x0 0 align 1
segment 0 mem 0x0 0 file 0x0 0 align 1
live 1 0 0 0x0 0
live 1 0 1 0x0 0
entry -
end

# Without collection all debug data stays.
[{"kind":"object","sections":[{"slot":"debug","size":3,"attrs":2},{"slot":"mustdebug","size":1}]}]],"options":{"gc":false}
0 layout
section 0 index 0 mem 0x0 4 file 0x0 4 align 1 lma 0x0 attrs 3
part 0 mem 0x0 4 file 0x0 4 align 1
segment 0 mem 0x0 4 file 0x0 4 align 1
live 1 0 0 0x0 3
live 1 0 1 0x3 1
entry -
end

# Debug data that code refers to stays, and what it refers to itself isn't missed.
[{"kind":"object","symbols":[{"at":["sec",1,1]},{"at":["undef"]}],"sections":[{"slot":"must","size":4,"relocs":[[0,"Absolute",0,0,false]]},{"slot":"debug","size":3,"relocs":[[0,"Absolute",1,0,false]]}]}]]
0 layout
section 0 index 0 mem 0x0 7 file 0x0 7 align 1 lma 0x0 attrs 1
part 0 mem 0x0 7 file 0x0 7 align 1
segment 0 mem 0x0 7 file 0x0 7 align 1
live 1 0 0 0x0 4
live 1 0 1 0x4 3
symbol 0 0x5 64 got - plt - dyn -
entry -
end

# A symbol of a dynamic file is 0, and no address for the entry.
[{"kind":"dynamic","symbols":[{"at":["dyn"],"flags":2}]},{"kind":"object","symbols":[{"at":["undef"],"def":0}],"sections":[{"slot":"must","size":1,"relocs":[[0,"Absolute",0,0,false]]}]}]],"options":{"entry":1}
0 layout
section 0 index 0 mem 0x0 1 file 0x0 1 align 1 lma 0x0 attrs 1
part 0 mem 0x0 1 file 0x0 1 align 1
segment 0 mem 0x0 1 file 0x0 1 align 1
live 1 1 0 0x0 1
symbol 0 0x0 66 got - plt - dyn -
entry not an address
end

# One that is undefined and isn't asked about is 0.
[{"kind":"dynamic","symbols":[{"at":["undef"]}]}]],"options":{"entry":0}
0 layout
section 0 index - mem 0x0 0 file 0x0 0 align 1 lma 0x0 attrs 1
part 0 mem 0x0 0 file 0x0 0 align 1
symbol 0 0x0 64 got - plt - dyn -
entry 0x0
end

# A symbol of a file that isn't loaded stands for nothing.
[{"kind":"notloaded","check":true,"symbols":[{"at":["dyn"]},{"at":["undef"]}]},{"kind":"object","symbols":[{"at":["undef"],"def":0}],"sections":[{"slot":"must","size":1,"relocs":[[0,"Absolute",0,0,false]]}]}]],"options":{"entry":0}
0 layout
section 0 index 0 mem 0x0 1 file 0x0 1 align 1 lma 0x0 attrs 1
part 0 mem 0x0 1 file 0x0 1 align 1
segment 0 mem 0x0 1 file 0x0 1 align 1
live 1 1 0 0x0 1
entry not loaded
end

# What a dynamic file takes from an object is kept, and exported;
[{"kind":"dynamic","symbols":[{"at":["undef"],"def":1}]},{"kind":"object","symbols":[{"name":"a","at":["sec",0,1]}],"sections":[{"slot":"unloaded","size":2}]}]]
0 layout
section 0 index 0 mem 0x0 2 file 0x0 2 align 1 lma 0x0 attrs 1
part 0 mem 0x0 2 file 0x0 2 align 1
segment 0 mem 0x0 2 file 0x0 2 align 1
live 1 1 0 0x0 2
symbol 1 0x1 8192 got - plt - dyn -
entry -
end

# what is hidden isn't,
[{"kind":"dynamic","symbols":[{"at":["undef"],"def":1}]},{"kind":"object","symbols":[{"name":"a","at":["sec",0,1],"hidden":true}],"sections":[{"slot":"unloaded","size":2}]}]]
0 layout
section 0 index - mem 0x0 0 file 0x0 0 align 1 lma 0x0 attrs 1
part 0 mem 0x0 0 file 0x0 0 align 1
entry -
end

# nor what a list leaves out that restricts.
[{"kind":"dynamic","symbols":[{"at":["undef"],"def":2},{"at":["undef"],"def":3}]},{"kind":"object","symbols":[{"name":"a","at":["sec",0,1]},{"name":"b","at":["sec",1,0]}],"sections":[{"slot":"unloaded","size":2},{"slot":"unloaded","size":4}]}]],"options":{"export_list":["b"],"restrictive":true}
0 layout
section 0 index 0 mem 0x0 4 file 0x0 4 align 1 lma 0x0 attrs 1
part 0 mem 0x0 4 file 0x0 4 align 1
segment 0 mem 0x0 4 file 0x0 4 align 1
live 1 1 1 0x0 4
symbol 3 0x0 8192 got - plt - dyn -
entry -
end

# An undefined symbol of a dynamic file with the fault option off, and of one that isn't asked about.
[{"kind":"dynamic","check":true,"symbols":[{"at":["undef"]}]}]],"options":{"error_dynamics":false}
0 layout
section 0 index - mem 0x0 0 file 0x0 0 align 1 lma 0x0 attrs 1
part 0 mem 0x0 0 file 0x0 0 align 1
entry -
end

[{"kind":"dynamic","symbols":[{"at":["undef"]}]}]]
0 layout
section 0 index - mem 0x0 0 file 0x0 0 align 1 lma 0x0 attrs 1
part 0 mem 0x0 0 file 0x0 0 align 1
entry -
end

# Made symbols and a script without symbols, and candidates that nothing asks for.
[{"kind":"synthetic","candidates":[[0,1,1,0]]},{"kind":"object","sections":[{"slot":"unloaded","size":1}]},{"kind":"script","candidates":[[0,1,1,0]]}]]
0 layout
section 0 index - mem 0x0 0 file 0x0 0 align 1 lma 0x0 attrs 1
part 0 mem 0x0 0 file 0x0 0 align 1
entry -
end"#;

/// The same, with the lines that tell which references can't be met.
const UNMET: &str =
    r#"@ {"plan":{"page":16,"sections":[{"attrs":1,"parts":[[1,false]]}],"segments":[{"kind":"load"}],"events":[["seg",0],["sec",0],["endseg",0]]},"groups":[[{"kind":"prelude"}],...}

# An undefined symbol of a dynamic file.
[{"kind":"dynamic","check":true,"symbols":[{"at":["undef"]}]}]]
1 undefined: symbol 0 from 1 0

# By file; a dynamic file's own symbol is told, whatever stands for it, unless it is weak or that is defined.
[{"kind":"object","symbols":[{"at":["sec",0,0]}],"sections":[{"slot":"discard"},{"slot":"must","size":1,"relocs":[[0,"Absolute",0,0,false]]}]},{"kind":"dynamic","check":true,"symbols":[{"at":["undef"]},{"at":["undef"],"weak":true},{"at":["dyn"]},{"at":["undef"],"def":1},{"at":["undef"],"def":0}]}],[{"kind":"dynamic","check":true,"symbols":[{"at":["undef"],"def":1}]},{"kind":"object","symbols":[{"at":["undef"],"def":1}],"sections":[{"slot":"must","size":2,"relocs":[[1,"Absolute",0,0,false]]}]}]]
1 discarded: 1 0 0
undefined: symbol 1 from 1 1
undefined: symbol 4 from 1 1
undefined: symbol 6 from 2 0
undefined: symbol 1 from 2 1 0 relocation 0

# What comes along with a group is asked about its references; debug data isn't.
[{"kind":"object","symbols":[{"at":["undef"]},{"at":["sec",3,0]}],"sections":[{"slot":"must","group":1},{"slot":"unloaded","size":1,"group":1,"relocs":[[0,"Absolute",0,0,false],[0,"Absolute",1,0,false]]},{"slot":"debug","size":1,"group":1,"relocs":[[0,"Absolute",0,0,false]]},{"slot":"discard","group":1}]}]]
1 undefined: symbol 0 from 1 0 1 relocation 0
discarded: 1 0 3"#;

#[test]
fn groups_debug_data_and_other_files_are_laid_out(rt: HostRuntime) -> Result<(), Fail> {
    expect_reports(&rt, rt.alloc(), KEPT)
}

#[test]
fn references_of_dynamic_files_are_told(rt: HostRuntime) -> Result<(), Fail> {
    expect_reports(&rt, rt.alloc(), UNMET)
}
