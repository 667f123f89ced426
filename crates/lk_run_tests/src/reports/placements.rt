//! Plans that move what they place: locations, regions, thread-local data, bases, load addresses and secondary sections.

use crate::rows::{Asked, expect_rows};
use crate::runs::expect_reports;
use std::test::Fail;

/// Descriptions with their reports.
const REPORTED: &str = r#"# A location behind the section before it.
{"plan":{"page":16,"sections":[{"attrs":1,"parts":[[1,false]]},{"attrs":1,"parts":[[1,false]]}],"segments":[{"kind":"load"}],"events":[["seg",0],["sec",0],["loc",["num",32]],["sec",1],["endseg",0]]},"groups":[[{"kind":"prelude"},{"kind":"script"}],[{"kind":"object","sections":[{"slot":"must","size":8},{"slot":"must","part":1,"size":1}]}]]}
0 layout
section 0 index 0 mem 0x0 8 file 0x0 8 align 1 lma 0x0 attrs 1
section 1 index 1 mem 0x20 1 file 0x20 1 align 1 lma 0x20 attrs 1
part 0 mem 0x0 8 file 0x0 8 align 1
part 1 mem 0x20 1 file 0x20 1 align 1
segment 0 mem 0x0 33 file 0x0 33 align 1
live 1 0 0 0x0 8
live 1 0 1 0x20 1
entry -
end

# A region that is full.
{"plan":{"page":16,"regions":[{"name":"ram","origin":["num",256],"length":["num",8]}],"sections":[{"attrs":1,"parts":[[1,false]],"region":"ram"}],"segments":[{"kind":"load"}],"events":[["seg",0],["sec",0],["endseg",0]]},"groups":[[{"kind":"prelude"}],[{"kind":"object","sections":[{"slot":"must","size":8}]}]]}
0 layout
section 0 index 0 mem 0x100 8 file 0x0 8 align 1 lma 0x100 attrs 1
part 0 mem 0x100 8 file 0x0 8 align 1
segment 0 mem 0x100 8 file 0x0 8 align 1
live 1 0 0 0x100 8
entry -
end

# The address of a section goes by a symbol, whose part is placed by then: an image, and a section before it.
{"plan":{"page":16,"base":["num",64],"sections":[{"attrs":1,"parts":[[1,false]]},{"attrs":1,"parts":[[1,false]]}],"segments":[{"kind":"load"}],"events":[["seg",0],["sec",0],["addr",["add",["sym",0],["num",32]]],["sec",1],["endseg",0]]},"groups":[[{"kind":"prelude"}],[{"kind":"object","symbols":[{"at":["undef"],"def":2},{"at":["undef"]},{"at":["sec",1,3]},{"at":["sec",2,0]},{"at":["sec",3,0]},{"at":["sec",4,0]},{"at":["sec",5,0]},{"at":["common",0,4]}],"sections":[{"slot":"must","size":8},{"slot":"must","size":4},{"slot":"must","part":1,"size":1},{"slot":"mustdebug","size":1},{"slot":"unloaded","size":1},{"slot":"merge","strings":true,"data":"6100"}]}]]}
0 layout
section 0 index 0 mem 0x40 15 file 0x0 15 align 1 lma 0x40 attrs 1
section 1 index 1 mem 0x6d 1 file 0x2d 1 align 1 lma 0x6d attrs 1
part 0 mem 0x40 15 file 0x0 15 align 1
part 1 mem 0x6d 1 file 0x2d 1 align 1
segment 0 mem 0x40 46 file 0x0 46 align 1
live 1 0 0 0x42 8
live 1 0 1 0x4a 4
live 1 0 2 0x6d 1
live 1 0 3 0x4e 1
merged 0 2 1 1 2 0x40
piece 0 0x40 2
entry -
end

# A load address that is where a symbol of the section stands, which is placed by then.
{"plan":{"page":16,"sections":[{"attrs":1,"parts":[[1,false]],"at":["sym",0]}],"segments":[{"kind":"load"}],"events":[["seg",0],["sec",0],["endseg",0]],"base":["num",32]},"groups":[[{"kind":"prelude"}],[{"kind":"object","symbols":[{"at":["sec",0,4]}],"sections":[{"slot":"must","part":0,"size":5}]}]]}
0 layout
section 0 index 0 mem 0x20 5 file 0x0 5 align 1 lma 0x24 attrs 1
part 0 mem 0x20 5 file 0x0 5 align 1
segment 0 mem 0x20 5 file 0x0 5 align 1
live 1 0 0 0x20 5
entry -
end

# A section is loaded from behind itself.
{"plan":{"page":16,"sections":[{"attrs":1,"parts":[[1,false]],"at":["add",["addr",0],["sizeof",0]]}],"segments":[{"kind":"load"}],"events":[["seg",0],["sec",0],["endseg",0]],"base":["num",32]},"groups":[[{"kind":"prelude"}],[{"kind":"object","sections":[{"slot":"must","part":0,"size":5}]}]]}
0 layout
section 0 index 0 mem 0x20 5 file 0x0 5 align 1 lma 0x25 attrs 1
part 0 mem 0x20 5 file 0x0 5 align 1
segment 0 mem 0x20 5 file 0x0 5 align 1
live 1 0 0 0x20 5
entry -
end

# Zero-filled thread-local data, with data behind it in the same segment, and in another one, which begins at the next page.
{"plan":{"page":4096,"base":["num",4096],"sections":[{"attrs":9,"parts":[[4,false]]},{"attrs":25,"parts":[[16,false]]},{"attrs":1,"parts":[[4,false]]}],"segments":[{"kind":"load"}],"events":[["seg",0],["sec",0],["sec",1],["sec",2],["endseg",0]]},"groups":[[{"kind":"prelude"}],[{"kind":"object","sections":[{"slot":"must","part":0,"size":4},{"slot":"must","part":1,"size":16},{"slot":"must","part":2,"size":4}]}]]}
0 layout
section 0 index 0 mem 0x1000 4 file 0x0 4 align 4 lma 0x1000 attrs 9
section 1 index 1 mem 0x1010 16 file 0x4 0 align 16 lma 0x1010 attrs 25
section 2 index 2 mem 0x1004 4 file 0x4 4 align 4 lma 0x1004 attrs 1
part 0 mem 0x1000 4 file 0x0 4 align 4
part 1 mem 0x1010 16 file 0x4 0 align 16
part 2 mem 0x1004 4 file 0x4 4 align 4
segment 0 mem 0x1000 8 file 0x0 8 align 4
live 1 0 0 0x1000 4
live 1 0 1 0x1010 16
live 1 0 2 0x1004 4
entry -
end

{"plan":{"page":4096,"base":["num",4096],"sections":[{"attrs":9,"parts":[[4,false]]},{"attrs":25,"parts":[[16,false]]},{"attrs":1,"parts":[[4,false]]}],"segments":[{"kind":"load"},{"kind":"load"}],"events":[["seg",0],["sec",0],["sec",1],["endseg",0],["seg",1],["sec",2],["endseg",1]]},"groups":[[{"kind":"prelude"}],[{"kind":"object","sections":[{"slot":"must","part":0,"size":4},{"slot":"must","part":1,"size":16},{"slot":"must","part":2,"size":4}]}]]}
0 layout
section 0 index 0 mem 0x1000 4 file 0x0 4 align 4 lma 0x1000 attrs 9
section 1 index 1 mem 0x1010 16 file 0x4 0 align 16 lma 0x1010 attrs 25
section 2 index 2 mem 0x2004 4 file 0x4 4 align 4 lma 0x2004 attrs 1
part 0 mem 0x1000 4 file 0x0 4 align 4
part 1 mem 0x1010 16 file 0x4 0 align 16
part 2 mem 0x2004 4 file 0x4 4 align 4
segment 0 mem 0x1000 4 file 0x0 4 align 4
segment 1 mem 0x2004 4 file 0x4 4 align 4
live 1 0 0 0x1000 4
live 1 0 1 0x1010 16
live 1 0 2 0x2004 4
entry -
end

# The same with a segment between, before which the location moves: the data takes it in a third segment.
{"plan":{"page":4096,"base":["num",4096],"sections":[{"attrs":9,"parts":[[4,false]]},{"attrs":25,"parts":[[16,false]]},{"attrs":1,"parts":[[4,false]]}],"segments":[{"kind":"load"},{"kind":"load"},{"kind":"load"}],"events":[["seg",0],["sec",0],["sec",1],["endseg",0],["loc",["num",12288]],["seg",1],["endseg",1],["seg",2],["sec",2],["endseg",2]]},"groups":[[{"kind":"prelude"}],[{"kind":"script"}],[{"kind":"object","sections":[{"slot":"must","part":0,"size":4},{"slot":"must","part":1,"size":16},{"slot":"must","part":2,"size":4}]}]]}
0 layout
section 0 index 0 mem 0x1000 4 file 0x0 4 align 4 lma 0x1000 attrs 9
section 1 index 1 mem 0x1010 16 file 0x4 0 align 16 lma 0x1010 attrs 25
section 2 index 2 mem 0x3000 4 file 0x1000 4 align 4 lma 0x3000 attrs 1
part 0 mem 0x1000 4 file 0x0 4 align 4
part 1 mem 0x1010 16 file 0x4 0 align 16
part 2 mem 0x3000 4 file 0x1000 4 align 4
segment 0 mem 0x1000 4 file 0x0 4 align 4
segment 2 mem 0x3000 4 file 0x1000 4 align 4
live 2 0 0 0x1000 4
live 2 0 1 0x1010 16
live 2 0 2 0x3000 4
entry -
end

# A base at the start of a page, and one with the headers before it there.
{"plan":{"page":4096,"custom_base":true,"base":["num",65536],"sections":[{"attrs":1,"parts":[[1,false]]}],"segments":[{"kind":"load"}],"events":[["seg",0],["sec",0],["endseg",0]]},"groups":[[{"kind":"prelude"}],[{"kind":"object","sections":[{"slot":"must","size":1}]}]]}
0 layout
section 0 index 0 mem 0xf000 1 file 0x0 1 align 1 lma 0xf000 attrs 1
part 0 mem 0xf000 1 file 0x0 1 align 1
segment 0 mem 0xf000 1 file 0x0 1 align 1
live 1 0 0 0xf000 1
entry -
end

{"plan":{"page":4096,"custom_base":true,"base":["num",66304],"sections":[{"attrs":1,"parts":[[1,false]]}],"segments":[{"kind":"load"}],"events":[["seg",0],["sec",0],["endseg",0]]},"groups":[[{"kind":"prelude"}],[{"kind":"object","sections":[{"slot":"must","size":1}]}]]}
0 layout
section 0 index 0 mem 0x10000 1 file 0x0 1 align 1 lma 0x10000 attrs 1
part 0 mem 0x10000 1 file 0x0 1 align 1
segment 0 mem 0x10000 1 file 0x0 1 align 1
live 1 0 0 0x10000 1
entry -
end

# What takes no bytes of the file may go back.
{"plan":{"page":16,"sections":[{"attrs":1,"parts":[[1,false]]},{"attrs":17,"parts":[[1,false]]}],"segments":[{"kind":"load"}],"events":[["seg",0],["sec",0],["addr",["num",2]],["sec",1],["endseg",0]]},"groups":[[{"kind":"prelude"}],[{"kind":"object","sections":[{"slot":"must","part":0,"size":8},{"slot":"must","part":1,"size":4}]}]]}
0 layout
section 0 index 0 mem 0x0 8 file 0x0 8 align 1 lma 0x0 attrs 1
section 1 index 1 mem 0x2 4 file 0x8 0 align 1 lma 0x2 attrs 17
part 0 mem 0x0 8 file 0x0 8 align 1
part 1 mem 0x2 4 file 0x8 0 align 1
segment 0 mem 0x0 8 file 0x0 8 align 1
live 1 0 0 0x0 8
live 1 0 1 0x2 4
entry -
end

# A section that is not allocated stands at 0, and goes along with nothing.
@ {"plan":{"page":16,"sections":[{"parts":[[1,false]]}],"events":[["sec",0]]...},"groups":[[{"kind":"prelude"}]]}

,"custom_phdrs":true
0 layout
section 0 index - mem 0x0 0 file 0x0 0 align 1 lma 0x0 attrs 0
part 0 mem 0x0 0 file 0x0 0 align 1
entry -
end

,"phdrs_headers":true
0 layout
section 0 index - mem 0x0 0 file 0x0 0 align 1 lma 0x0 attrs 0
part 0 mem 0x0 0 file 0x0 0 align 1
entry -
end

,"base":["dot"]
0 layout
section 0 index - mem 0x0 0 file 0x0 0 align 1 lma 0x0 attrs 0
part 0 mem 0x0 0 file 0x0 0 align 1
entry -
end

,"base":["add",["num",1],["num",2]]
0 layout
section 0 index - mem 0x0 0 file 0x0 0 align 1 lma 0x0 attrs 0
part 0 mem 0x0 0 file 0x0 0 align 1
entry -
end

,"regions":[{"name":"r","origin":["num",0],"length":["num",1]}]
0 layout
section 0 index - mem 0x0 0 file 0x0 0 align 1 lma 0x0 attrs 0
part 0 mem 0x0 0 file 0x0 0 align 1
entry -
end

,"events":[["addr",["num",1]],["sec",0]]
0 layout
section 0 index - mem 0x0 0 file 0x0 0 align 1 lma 0x0 attrs 0
part 0 mem 0x0 0 file 0x0 0 align 1
entry -
end

,"segments":[{"kind":"tls"}],"events":[["seg",0],["sec",0],["endseg",0]]
0 layout
section 0 index - mem 0x0 0 file 0x0 0 align 1 lma 0x0 attrs 0
part 0 mem 0x0 0 file 0x0 0 align 1
entry -
end

# One of two sections is thread-local, secondary, or loaded from elsewhere.
@ {"plan":{"page":16,"sections":[{"parts":[[1,false]],...},{"parts":[[1,false]]}],"events":[["sec",0],["sec",1]]},"groups":[[{"kind":"prelude"}]]}

"attrs":9
0 layout
section 0 index - mem 0x0 0 file 0x0 0 align 1 lma 0x0 attrs 9
section 1 index - mem 0x0 0 file 0x0 0 align 1 lma 0x0 attrs 0
part 0 mem 0x0 0 file 0x0 0 align 1
part 1 mem 0x0 0 file 0x0 0 align 1
entry -
end

"primary":1
0 layout
section 0 index - mem 0x0 0 file 0x0 0 align 1 lma 0x0 attrs 0
section 1 index - mem 0x0 0 file 0x0 0 align 1 lma 0x0 attrs 0
part 0 mem 0x0 0 file 0x0 0 align 1
part 1 mem 0x0 0 file 0x0 0 align 1
entry -
end

"at":["num",1]
0 layout
section 0 index - mem 0x0 0 file 0x0 0 align 1 lma 0x1 attrs 0
section 1 index - mem 0x0 0 file 0x0 0 align 1 lma 0x0 attrs 0
part 0 mem 0x0 0 file 0x0 0 align 1
part 1 mem 0x0 0 file 0x0 0 align 1
entry -
end"#;

#[test]
fn moves_are_reported(rt: HostRuntime) -> Result<(), Fail> {
    expect_reports(&rt, rt.alloc(), REPORTED)
}

/// Descriptions that are refused, with the statuses and the texts of their runs.
const REFUSED: &str = r#"
# A location before the end of what stands there, and before the start of a section.
{"plan":{"page":16,"sections":[{"attrs":1,"parts":[[1,false]]},{"attrs":1,"parts":[[1,false]]}],"segments":[{"kind":"load"}],"events":[["seg",0],["sec",0],["loc",["num",4]],["sec",1],["endseg",0]]},"groups":[[{"kind":"prelude"},{"kind":"script"}],[{"kind":"object","sections":[{"slot":"must","size":8},{"slot":"must","part":1,"size":1}]}]]} => 1 Cannot move location counter backwards (from 0x8 to 0x4)
{"plan":{"page":16,"base":["num",32],"sections":[{"attrs":1,"parts":[[1,false]]}],"segments":[{"kind":"load"}],"events":[["seg",0],["sec",0],["locrel",["num",31],0],["endseg",0]]},"groups":[[{"kind":"prelude"}],[{"kind":"script"}]]} => 1 Cannot move location counter backwards (from 0x20 to 0x1f)
# A region with a byte too few, one that a location leaves, one that isn't there, and one whose name is taken.
{"plan":{"page":16,"regions":[{"name":"ram","origin":["num",256],"length":["num",8]}],"sections":[{"attrs":1,"parts":[[1,false]],"region":"ram"}],"segments":[{"kind":"load"}],"events":[["seg",0],["sec",0],["endseg",0]]},"groups":[[{"kind":"prelude"}],[{"kind":"object","sections":[{"slot":"must","size":9}]}]]} => 1 region 0 overflowed by 1 bytes
{"plan":{"page":16,"regions":[{"name":"ram","origin":["num",256],"length":["num",8]}],"sections":[{"attrs":1,"parts":[[1,false]],"region":"ram"}],"segments":[{"kind":"load"}],"events":[["seg",0],["addr",["num",268]],["sec",0],["endseg",0]]},"groups":[[{"kind":"prelude"}],[{"kind":"object","sections":[{"slot":"must","size":1}]}]]} => 1 address 0x10c at event 2 is outside its region
{"plan":{"page":16,"sections":[{"attrs":1,"parts":[[1,false]],"region":"ram"}],"segments":[{"kind":"load"}],"events":[["seg",0],["sec",0],["endseg",0]]},"groups":[[{"kind":"prelude"}]]} => 1 region of section 0 not declared
{"plan":{"page":16,"regions":[{"name":"ram","origin":["num",0],"length":["num",8]},{"name":"ram","origin":["num",8],"length":["num",8]}]},"groups":[[{"kind":"prelude"}]]} => 1 region 1 already defined
# Expressions without a value: of the base, of a region, of an event and of a load address.
{"plan":{"page":16,"base":["div",["num",1],["num",0]]},"groups":[[{"kind":"prelude"}]]} => 1 expression at base: division by zero
{"plan":{"page":16,"regions":[{"origin":["sub",["num",0],["num",1]],"length":["div",["num",1],["num",0]]}]},"groups":[[{"kind":"prelude"}]]} => 1 expression at region 0: overflow
# A symbol that isn't there, in a part that is placed later, in debug data, in a section that is left out, in merged data, and a common.
{"plan":{"page":16,"base":["num",64],"sections":[{"attrs":1,"parts":[[1,false]]},{"attrs":1,"parts":[[1,false]]}],"segments":[{"kind":"load"}],"events":[["seg",0],["sec",0],["addr",["add",["sym",1],["num",32]]],["sec",1],["endseg",0]]},"groups":[[{"kind":"prelude"}],[{"kind":"object","symbols":[{"at":["undef"],"def":2},{"at":["undef"]},{"at":["sec",1,3]},{"at":["sec",2,0]},{"at":["sec",3,0]},{"at":["sec",4,0]},{"at":["sec",5,0]},{"at":["common",0,4]}],"sections":[{"slot":"must","size":8},{"slot":"must","size":4},{"slot":"must","part":1,"size":1},{"slot":"mustdebug","size":1},{"slot":"unloaded","size":1},{"slot":"merge","strings":true,"data":"6100"}]}]]} => 1 expression at event 2: missing symbol
{"plan":{"page":16,"base":["num",64],"sections":[{"attrs":1,"parts":[[1,false]]},{"attrs":1,"parts":[[1,false]]}],"segments":[{"kind":"load"}],"events":[["seg",0],["sec",0],["addr",["add",["sym",3],["num",32]]],["sec",1],["endseg",0]]},"groups":[[{"kind":"prelude"}],[{"kind":"object","symbols":[{"at":["undef"],"def":2},{"at":["undef"]},{"at":["sec",1,3]},{"at":["sec",2,0]},{"at":["sec",3,0]},{"at":["sec",4,0]},{"at":["sec",5,0]},{"at":["common",0,4]}],"sections":[{"slot":"must","size":8},{"slot":"must","size":4},{"slot":"must","part":1,"size":1},{"slot":"mustdebug","size":1},{"slot":"unloaded","size":1},{"slot":"merge","strings":true,"data":"6100"}]}]]} => 1 expression at event 2: no address
{"plan":{"page":16,"base":["num",64],"sections":[{"attrs":1,"parts":[[1,false]]},{"attrs":1,"parts":[[1,false]]}],"segments":[{"kind":"load"}],"events":[["seg",0],["sec",0],["addr",["add",["sym",4],["num",32]]],["sec",1],["endseg",0]]},"groups":[[{"kind":"prelude"}],[{"kind":"object","symbols":[{"at":["undef"],"def":2},{"at":["undef"]},{"at":["sec",1,3]},{"at":["sec",2,0]},{"at":["sec",3,0]},{"at":["sec",4,0]},{"at":["sec",5,0]},{"at":["common",0,4]}],"sections":[{"slot":"must","size":8},{"slot":"must","size":4},{"slot":"must","part":1,"size":1},{"slot":"mustdebug","size":1},{"slot":"unloaded","size":1},{"slot":"merge","strings":true,"data":"6100"}]}]]} => 1 expression at event 2: no address
{"plan":{"page":16,"base":["num",64],"sections":[{"attrs":1,"parts":[[1,false]]},{"attrs":1,"parts":[[1,false]]}],"segments":[{"kind":"load"}],"events":[["seg",0],["sec",0],["addr",["add",["sym",5],["num",32]]],["sec",1],["endseg",0]]},"groups":[[{"kind":"prelude"}],[{"kind":"object","symbols":[{"at":["undef"],"def":2},{"at":["undef"]},{"at":["sec",1,3]},{"at":["sec",2,0]},{"at":["sec",3,0]},{"at":["sec",4,0]},{"at":["sec",5,0]},{"at":["common",0,4]}],"sections":[{"slot":"must","size":8},{"slot":"must","size":4},{"slot":"must","part":1,"size":1},{"slot":"mustdebug","size":1},{"slot":"unloaded","size":1},{"slot":"merge","strings":true,"data":"6100"}]}]]} => 1 expression at event 2: no address
{"plan":{"page":16,"base":["num",64],"sections":[{"attrs":1,"parts":[[1,false]]},{"attrs":1,"parts":[[1,false]]}],"segments":[{"kind":"load"}],"events":[["seg",0],["sec",0],["addr",["add",["sym",6],["num",32]]],["sec",1],["endseg",0]]},"groups":[[{"kind":"prelude"}],[{"kind":"object","symbols":[{"at":["undef"],"def":2},{"at":["undef"]},{"at":["sec",1,3]},{"at":["sec",2,0]},{"at":["sec",3,0]},{"at":["sec",4,0]},{"at":["sec",5,0]},{"at":["common",0,4]}],"sections":[{"slot":"must","size":8},{"slot":"must","size":4},{"slot":"must","part":1,"size":1},{"slot":"mustdebug","size":1},{"slot":"unloaded","size":1},{"slot":"merge","strings":true,"data":"6100"}]}]]} => 1 expression at event 2: no address
{"plan":{"page":16,"base":["num",64],"sections":[{"attrs":1,"parts":[[1,false]]},{"attrs":1,"parts":[[1,false]]}],"segments":[{"kind":"load"}],"events":[["seg",0],["sec",0],["addr",["add",["sym",7],["num",32]]],["sec",1],["endseg",0]]},"groups":[[{"kind":"prelude"}],[{"kind":"object","symbols":[{"at":["undef"],"def":2},{"at":["undef"]},{"at":["sec",1,3]},{"at":["sec",2,0]},{"at":["sec",3,0]},{"at":["sec",4,0]},{"at":["sec",5,0]},{"at":["common",0,4]}],"sections":[{"slot":"must","size":8},{"slot":"must","size":4},{"slot":"must","part":1,"size":1},{"slot":"mustdebug","size":1},{"slot":"unloaded","size":1},{"slot":"merge","strings":true,"data":"6100"}]}]]} => 1 expression at event 2: no address
{"plan":{"page":16,"sections":[{"attrs":1,"parts":[[1,false]],"at":["addr",1]},{"attrs":1,"parts":[[1,false]]}],"segments":[{"kind":"load"}],"events":[["seg",0],["sec",0],["sec",1],["endseg",0]]},"groups":[[{"kind":"prelude"}]]} => 1 expression at section 0: no address
@ {"plan":{"page":16,"sections":[{"attrs":1,"parts":[[1,false]],"at":...}],"segments":[{"kind":"load"}],"events":[["seg",0],["sec",0],["endseg",0]]},"groups":[[{"kind":"prelude"}],[{"kind":"object","symbols":[{"at":["undef"],"def":1},{"at":["undef"],"weak":true}]}]]}
["sym",0] | ["sym",1] | ["add",["sym",0],["addr",0]] | ["max",["num",1],["sym",1]] => 1 expression at section 0: missing symbol
["div",["num",1],["sub",["addr",0],["addr",0]]] => 1 expression at section 0: division by zero
["sub",["addr",0],["num",1]] => 1 expression at section 0: overflow
@ ...
# A base before which the headers have no room: one byte too few.
{"plan":{"page":4096,"custom_base":true,"base":["num",119],"sections":[{"attrs":1,"parts":[[1,false]]}],"segments":[{"kind":"load"}],"events":[["seg",0],["sec",0],["endseg",0]]},"groups":[[{"kind":"prelude"}],[{"kind":"object","sections":[{"slot":"must","size":1}]}]]} => 1 base address (0x77) is less than the size of headers (0x78)
# Joined sections, and thread-local data, that end past the greatest address.
{"plan":{"page":16,"base":["num",18446744073709551600],"sections":[{"attrs":17,"parts":[[1,false]]},{"attrs":17,"parts":[[1,false]],"primary":0}],"segments":[{"kind":"load"}],"events":[["seg",0],["sec",0],["addr",["num",0]],["sec",1],["endseg",0]]},"groups":[[{"kind":"prelude"}],[{"kind":"object","sections":[{"slot":"must","part":0,"size":15},{"slot":"must","part":1,"size":1}]}]]} => 1 address overflow: section 0
{"plan":{"page":16,"base":["num",18446744073709551600],"sections":[{"attrs":25,"parts":[[16,true]]}],"segments":[{"kind":"tls"}],"events":[["seg",0],["sec",0],["endseg",0]]},"groups":[[{"kind":"prelude"}],[{"kind":"object","sections":[{"slot":"must","size":15}]}]]} => 1 address overflow: segment 0
"#;

#[test]
fn moves_that_fail_are_told(rt: HostRuntime) -> Result<(), Fail> {
    expect_rows(&rt, rt.alloc(), Asked::Run, REFUSED)
}
