//! Descriptions that are made to go wrong: circles, lists that are too long, sizes at the end of what a number holds, two places in one.

use crate::rows::{Asked, expect_rows};
use crate::runs::{expect_reports, expect_reports_by_workers};
use std::test::Fail;

/// Those that are laid out all the same, with their reports.
const REPORTED: &str =
    r#"# Each of three sections asks for the next one, in a circle, and nothing asks for any of them.
{"plan":{"page":16,"sections":[{"attrs":1,"parts":[[1,false]]}],"segments":[{"kind":"load"}],"events":[["seg",0],["sec",0],["endseg",0]]},"groups":[[{"kind":"prelude"}],[{"kind":"object","symbols":[{"at":["sec",0,0]},{"at":["undef"],"def":2}],"sections":[{"slot":"unloaded","size":4,"relocs":[[0,"Relative",1,0,false]]}]}],[{"kind":"object","symbols":[{"at":["sec",0,0]},{"at":["undef"],"def":4}],"sections":[{"slot":"unloaded","size":4,"relocs":[[0,"Relative",1,0,false]]}]}],[{"kind":"object","symbols":[{"at":["sec",0,0]},{"at":["undef"],"def":0}],"sections":[{"slot":"unloaded","size":4,"relocs":[[0,"Relative",1,0,false]]}]}]]}
0 layout
section 0 index - mem 0x0 0 file 0x0 0 align 1 lma 0x0 attrs 1
part 0 mem 0x0 0 file 0x0 0 align 1
entry -
end

# Two regions of one place.
{"plan":{"page":16,"base":["num",256],"regions":[{"name":"a","origin":["num",256],"length":["num",16]},{"name":"b","origin":["num",256],"length":["num",16]}],"sections":[{"attrs":1,"parts":[[1,false]],"region":"a"},{"attrs":1,"parts":[[1,false]],"region":"b"}],"segments":[{"kind":"load"}],"events":[["seg",0],["sec",0],["sec",1],["endseg",0]]},"groups":[[{"kind":"prelude"}],[{"kind":"object","sections":[{"slot":"must","size":8},{"slot":"must","part":1,"size":8}]}]]}
0 layout
section 0 index 0 mem 0x100 8 file 0x0 8 align 1 lma 0x100 attrs 1
section 1 index 1 mem 0x100 8 file 0x8 8 align 1 lma 0x100 attrs 1
part 0 mem 0x100 8 file 0x0 8 align 1
part 1 mem 0x100 8 file 0x8 8 align 1
segment 0 mem 0x100 8 file 0x0 16 align 1
live 1 0 0 0x100 8
live 1 0 1 0x100 8
entry -
end

# Merged data of no bytes.
{"plan":{"page":16,"sections":[{"attrs":1,"parts":[[1,false]]}],"segments":[{"kind":"load"}],"events":[["seg",0],["sec",0],["endseg",0]]},"groups":[[{"kind":"prelude"}],[{"kind":"object","sections":[{"slot":"merge","strings":true,"data":""},{"slot":"merge","data":""}]}]]}
0 layout
section 0 index - mem 0x0 0 file 0x0 0 align 1 lma 0x0 attrs 1
part 0 mem 0x0 0 file 0x0 0 align 1
merged 0 0 0 0 0 0x0
entry -
end"#;

#[test]
fn what_can_be_laid_out_is(rt: HostRuntime) -> Result<(), Fail> {
    expect_reports(&rt, rt.alloc(), REPORTED)
}

#[test]
fn what_can_be_is_laid_out_by_workers(rt: HostRuntime) -> Result<(), Fail> {
    expect_reports_by_workers(&rt, rt.alloc(), REPORTED)
}

/// Those that are refused, with the statuses and the texts of their runs.
const REFUSED: &str = r#"
# A group too many.
{"plan":{"page":16},"groups":[«65536 of []»]} => 1 too many groups: 65536, limit 65535
# A segment too many, and a region.
{"plan":{"page":16,"segments":[«65 of {"kind":"load"}»]},"groups":[[{"kind":"prelude"}]]} => 1 too many segments: 65, limit 64
{"plan":{"page":16,"regions":[«65 of {"name":"r","origin":["num",0],"length":["num",1]}»]},"groups":[[{"kind":"prelude"}]]} => 1 too many regions: 65, limit 64
# A section of all bytes that there are.
{"plan":{"page":16,"sections":[{"attrs":1,"parts":[[8,false]]}],"segments":[{"kind":"load"}],"events":[["seg",0],["sec",0],["endseg",0]]},"groups":[[{"kind":"prelude"}],[{"kind":"object","sections":[{"slot":"must","size":18446744073709551615}]}]]} => 1 address overflow: part 0
# A redirect of itself.
{"plan":{"page":16},"groups":[[{"kind":"prelude","symbols":[{"at":["redirect",["sym",0],["none"],false],"name":"x"}]}]]} => 1 expression at symbol 0: self reference
# A part behind the last one, and a section in order of names where nothing is padded.
{"plan":{"page":16,"sections":[{"attrs":1,"parts":[[8,false]]}],"segments":[{"kind":"load"}],"events":[["seg",0],["sec",0],["endseg",0]]},"groups":[[{"kind":"prelude"}],[{"kind":"object","sections":[{"slot":"must","part":1,"size":4}]}]]} => 1 bad link: rule 11, input 1 0 0
{"plan":{"page":16,"sections":[{"attrs":1,"parts":[[8,true]]}],"segments":[{"kind":"load"}],"events":[["seg",0],["sec",0],["endseg",0]]},"groups":[[{"kind":"prelude"}],[{"kind":"object","sections":[{"slot":"must","sorted":true,"name":"x","size":4}]}]]} => 1 bad link: rule 11, input 1 0 0
# Sizes that are none.
{"plan":{"page":16,"sections":[{"attrs":1,"parts":[[8,false]]}],"segments":[{"kind":"load"}],"events":[["seg",0],["sec",0],["endseg",0]]},"groups":[[{"kind":"prelude"}],[{"kind":"object","sections":[{"slot":"must","size":-1}]}]]} => 3 not a link description: /groups/1/0/sections/0/size
{"plan":{"page":16,"sections":[{"attrs":1,"parts":[[8,false]]}],"segments":[{"kind":"load"}],"events":[["seg",0],["sec",0],["endseg",0]]},"groups":[[{"kind":"prelude"}],[{"kind":"object","sections":[{"slot":"must","size":1.0}]}]]} => 3 not a link description: /groups/1/0/sections/0/size
"#;

#[test]
fn what_cannot_is_refused(rt: HostRuntime) -> Result<(), Fail> {
    expect_rows(&rt, rt.alloc(), Asked::Run, REFUSED)
}

#[test]
fn it_is_refused_by_workers(rt: HostRuntime) -> Result<(), Fail> {
    expect_rows(&rt, rt.alloc(), Asked::RunByWorkers, REFUSED)
}
