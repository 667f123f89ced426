//! Reports of layouts, and refusals.

use crate::rows::{Asked, expect_rows};
use crate::runs::expect_reports;
use std::test::Fail;

/// Descriptions with their reports.
const REPORTED: &str = r#"# The smallest.
{"plan":{"page":4096},"groups":[[{"kind":"prelude"}]]}
0 layout
entry -
end

# Three sections in one segment.
{"plan":{"page":4096,"base":["num",4096],"sections":[{"name":"A","attrs":1,"parts":[[8,false]]},{"name":"B","attrs":1,"parts":[[1,false]]},{"name":"C","attrs":17,"parts":[[16,false]]}],"segments":[{"kind":"load"}],"events":[["seg",0],["sec",0],["sec",1],["sec",2],["endseg",0]]},"groups":[[{"kind":"prelude"}],[{"kind":"object","name":"a.o","sections":[{"slot":"must","part":0,"size":8},{"slot":"must","part":1,"size":7},{"slot":"must","part":2,"size":16}]}]]}
0 layout
section 0 index 0 mem 0x1000 8 file 0x0 8 align 8 lma 0x1000 attrs 1
section 1 index 1 mem 0x1008 7 file 0x8 7 align 1 lma 0x1008 attrs 1
section 2 index 2 mem 0x1010 16 file 0xf 0 align 16 lma 0x1010 attrs 17
part 0 mem 0x1000 8 file 0x0 8 align 8
part 1 mem 0x1008 7 file 0x8 7 align 1
part 2 mem 0x1010 16 file 0xf 0 align 16
segment 0 mem 0x1000 32 file 0x0 15 align 16
live 1 0 0 0x1000 8
live 1 0 1 0x1008 7
live 1 0 2 0x1010 16
entry -
end

# The same with much that changes nothing yet.
{"options":{"gc":false,"error_objects":false,"error_dynamics":false,"export_all":true,"export_list":["a"],"restrictive":true,"strip_all":true,"discard":"all","strip_names":["b"],"identity":"c","stack":9,"branch_range":4194304,"bucket_limit":1,"merge_group":1},"plan":{"page":4096,"base":["num",4096],"sections":[{"name":"A","attrs":1,"parts":[[8,false]],"top":true},{"name":"B","attrs":1,"parts":[[1,true]],"counters":true},{"name":"C","attrs":17,"parts":[[16,false]],"emit":"auto"}],"segments":[{"kind":"load","always":true}],"events":[["seg",0],["sec",0],["sec",1],["sec",2],["endseg",0]]},"groups":[[{"kind":"prelude","candidates":[]}],[{"kind":"object","name":"a.o","archive":true,"export":true,"check":true,"sections":[{"name":"x","slot":"must","part":0,"size":8},{"slot":"must","part":1,"size":7,"relax":[]},{"slot":"must","part":2,"size":16,"strings":true}]}]]}
0 layout
section 0 index 0 mem 0x1000 8 file 0x0 8 align 8 lma 0x1000 attrs 1
section 1 index 1 mem 0x1008 7 file 0x8 7 align 1 lma 0x1008 attrs 1
section 2 index 2 mem 0x1010 16 file 0xf 0 align 16 lma 0x1010 attrs 17
part 0 mem 0x1000 8 file 0x0 8 align 8
part 1 mem 0x1008 7 file 0x8 7 align 1
part 2 mem 0x1010 16 file 0xf 0 align 16
segment 0 mem 0x1000 32 file 0x0 15 align 16
live 1 0 0 0x1000 8
live 1 0 1 0x1008 7
live 1 0 2 0x1010 16
entry -
end

# Sections of two, three, one and two parts, of which one part has bytes: the other sections are told with their first parts.
{"plan":{"page":16,"base":["num",43968],"sections":[{"attrs":1,"parts":[[2,false],[1,false]]},{"attrs":3,"parts":[[4,false],[2,false],[1,false]]},{"attrs":1,"parts":[[1,false]]},{"attrs":1,"parts":[[2,false],[1,false]]}],"segments":[{"kind":"load"},{"kind":"load"}],"events":[["seg",0],["sec",0],["endseg",0],["seg",1],["sec",1],["sec",2],["sec",3],["endseg",1]]},"groups":[[{"kind":"prelude"}],[{"kind":"object","sections":[{"slot":"unloaded","size":1},{"slot":"unloaded","size":2},{"slot":"must","part":3,"size":3},{"slot":"unloaded","size":3}]}]]}
0 layout
section 0 index - mem 0xabc0 0 file 0x0 0 align 1 lma 0xabc0 attrs 1
section 1 index 0 mem 0xabc0 4 file 0x0 4 align 2 lma 0xabc0 attrs 3
section 2 index - mem 0xabc4 0 file 0x4 0 align 1 lma 0xabc4 attrs 1
section 3 index - mem 0xabc4 0 file 0x4 0 align 1 lma 0xabc4 attrs 1
part 0 mem 0xabc0 0 file 0x0 0 align 1
part 3 mem 0xabc0 4 file 0x0 4 align 2
part 5 mem 0xabc4 0 file 0x4 0 align 1
part 6 mem 0xabc4 0 file 0x4 0 align 1
segment 1 mem 0xabc0 4 file 0x0 4 align 2
live 1 0 2 0xabc0 3
entry -
end

# A second load segment.
{"plan":{"page":4096,"base":["num",4096],"sections":[{"name":"A","attrs":1,"parts":[[8,false]]},{"name":"B","attrs":1,"parts":[[1,false]]}],"segments":[{"kind":"load"},{"kind":"load"}],"events":[["seg",0],["sec",0],["endseg",0],["seg",1],["sec",1],["endseg",1]]},"groups":[[{"kind":"prelude"}],[{"kind":"object","name":"a.o","sections":[{"slot":"must","part":0,"size":8},{"slot":"must","part":1,"size":7}]}]]}
0 layout
section 0 index 0 mem 0x1000 8 file 0x0 8 align 8 lma 0x1000 attrs 1
section 1 index 1 mem 0x2008 7 file 0x8 7 align 1 lma 0x2008 attrs 1
part 0 mem 0x1000 8 file 0x0 8 align 8
part 1 mem 0x2008 7 file 0x8 7 align 1
segment 0 mem 0x1000 8 file 0x0 8 align 8
segment 1 mem 0x2008 7 file 0x8 7 align 1
live 1 0 0 0x1000 8
live 1 0 1 0x2008 7
entry -
end

# An empty section behind one of a byte: it is aligned at 1, and not at its part's alignment.
{"plan":{"page":16,"sections":[{"attrs":1,"parts":[[1,false]]},{"attrs":1,"parts":[[64,false]]}],"segments":[{"kind":"load"}],"events":[["seg",0],["sec",0],["sec",1],["endseg",0]]},"groups":[[{"kind":"prelude"}],[{"kind":"object","sections":[{"slot":"must","part":0,"size":1}]}]]}
0 layout
section 0 index 0 mem 0x0 1 file 0x0 1 align 1 lma 0x0 attrs 1
section 1 index - mem 0x1 0 file 0x1 0 align 1 lma 0x1 attrs 1
part 0 mem 0x0 1 file 0x0 1 align 1
part 1 mem 0x1 0 file 0x1 0 align 1
segment 0 mem 0x0 1 file 0x0 1 align 1
live 1 0 0 0x0 1
entry -
end

# An unallocated section inside a segment: it counts from 0, and the segment's hull begins there.
{"plan":{"page":16,"sections":[{"attrs":1,"parts":[[1,false]]},{"attrs":0,"parts":[[1,false]]}],"segments":[{"kind":"load"}],"events":[["seg",0],["sec",0],["sec",1],["endseg",0]],"base":["num",4096]},"groups":[[{"kind":"prelude"}],[{"kind":"object","sections":[{"slot":"must","part":0,"size":4},{"slot":"must","part":1,"size":4}]}]]}
0 layout
section 0 index 0 mem 0x1000 4 file 0x0 4 align 1 lma 0x1000 attrs 1
section 1 index 1 mem 0x0 4 file 0x4 4 align 1 lma 0x0 attrs 0
part 0 mem 0x1000 4 file 0x0 4 align 1
part 1 mem 0x0 4 file 0x4 4 align 1
segment 0 mem 0x0 4100 file 0x0 8 align 1
live 1 0 0 0x1000 4
live 1 0 1 0x0 4
entry -
end

# An input section as long as memory, but for a byte.
{"plan":{"page":1,"base":["num",0],"sections":[{"attrs":1,"parts":[[1,false]]}],"segments":[{"kind":"load"}],"events":[["seg",0],["sec",0],["endseg",0]]},"groups":[[{"kind":"prelude"}],[{"kind":"object","sections":[{"slot":"must","size":18446744073709551615}]}]]}
0 layout
section 0 index 0 mem 0x0 18446744073709551615 file 0x0 18446744073709551615 align 1 lma 0x0 attrs 1
part 0 mem 0x0 18446744073709551615 file 0x0 18446744073709551615 align 1
segment 0 mem 0x0 18446744073709551615 file 0x0 18446744073709551615 align 1
live 1 0 0 0x0 18446744073709551615
entry -
end

# Sections with an alignment of their own: with bytes
{"options":{"stack":7},"plan":{"page":16,"sections":[{"attrs":1,"parts":[[1,false]]},{"attrs":1,"align":64,"parts":[[8,false],[1,false]]}],"segments":[{"kind":"load"}],"events":[["seg",0],["sec",0],["sec",1],["endseg",0]]},"groups":[[{"kind":"prelude"}],[{"kind":"object","sections":[{"slot":"must","size":1},{"slot":"must","part":1,"size":8},{"slot":"must","part":2,"size":3}]}]]}
0 layout
section 0 index 0 mem 0x0 1 file 0x0 1 align 1 lma 0x0 attrs 1
section 1 index 1 mem 0x40 11 file 0x40 11 align 64 lma 0x40 attrs 1
part 0 mem 0x0 1 file 0x0 1 align 1
part 1 mem 0x40 8 file 0x40 8 align 64
part 2 mem 0x48 3 file 0x48 3 align 1
segment 0 mem 0x0 75 file 0x0 75 align 64
live 1 0 0 0x0 1
live 1 0 1 0x40 8
live 1 0 2 0x48 3
entry -
end

# and without.
{"options":{"stack":7},"plan":{"page":16,"sections":[{"attrs":1,"parts":[[1,false]]},{"attrs":1,"align":64,"parts":[[1,false]]},{"attrs":1,"parts":[[1,false]]}],"segments":[{"kind":"load"}],"events":[["seg",0],["sec",0],["sec",1],["sec",2],["endseg",0]]},"groups":[[{"kind":"prelude"}],[{"kind":"object","sections":[{"slot":"must","size":1},{"slot":"must","part":2,"size":1}]}]]}
0 layout
section 0 index 0 mem 0x0 1 file 0x0 1 align 1 lma 0x0 attrs 1
section 1 index - mem 0x40 0 file 0x40 0 align 64 lma 0x40 attrs 1
section 2 index 1 mem 0x40 1 file 0x40 1 align 1 lma 0x40 attrs 1
part 0 mem 0x0 1 file 0x0 1 align 1
part 1 mem 0x40 0 file 0x40 0 align 64
part 2 mem 0x40 1 file 0x40 1 align 1
segment 0 mem 0x0 65 file 0x0 65 align 1
live 1 0 0 0x0 1
live 1 0 1 0x40 1
entry -
end

# Input sections whose sizes are rounded up to the part's alignment,
{"options":{"stack":7},"plan":{"page":16,"sections":[{"attrs":1,"parts":[[8,false]]}],"segments":[{"kind":"load"}],"events":[["seg",0],["sec",0],["endseg",0]]},"groups":[[{"kind":"prelude"}],[{"kind":"object","sections":[{"slot":"must","size":7},{"slot":"must"},{"slot":"must","size":8}]}]]}
0 layout
section 0 index 0 mem 0x0 16 file 0x0 16 align 8 lma 0x0 attrs 1
part 0 mem 0x0 16 file 0x0 16 align 8
segment 0 mem 0x0 16 file 0x0 16 align 8
live 1 0 0 0x0 7
live 1 0 1 0x8 0
live 1 0 2 0x8 8
entry -
end

# and such as are packed.
{"options":{"stack":7},"plan":{"page":16,"sections":[{"attrs":1,"parts":[[8,true]]}],"segments":[{"kind":"load"}],"events":[["seg",0],["sec",0],["endseg",0]]},"groups":[[{"kind":"prelude"}],[{"kind":"object","sections":[{"slot":"must","size":7},{"slot":"must","size":8}]}]]}
0 layout
section 0 index 0 mem 0x0 15 file 0x0 15 align 8 lma 0x0 attrs 1
part 0 mem 0x0 15 file 0x0 15 align 8
segment 0 mem 0x0 15 file 0x0 15 align 8
live 1 0 0 0x0 7
live 1 0 1 0x7 8
entry -
end

# A section that is never emitted, with bytes
{"options":{"stack":7},"plan":{"page":16,"sections":[{"attrs":1,"parts":[[1,false]],"emit":"never"},{"attrs":1,"parts":[[1,false]]}],"segments":[{"kind":"load"}],"events":[["seg",0],["sec",0],["sec",1],["endseg",0]]},"groups":[[{"kind":"prelude"}],[{"kind":"object","sections":[{"slot":"must","size":3},{"slot":"must","part":1,"size":2}]}]]}
0 layout
section 0 index - mem 0x0 3 file 0x0 3 align 1 lma 0x0 attrs 1
section 1 index 0 mem 0x3 2 file 0x3 2 align 1 lma 0x3 attrs 1
part 0 mem 0x0 3 file 0x0 3 align 1
part 1 mem 0x3 2 file 0x3 2 align 1
segment 0 mem 0x0 5 file 0x0 5 align 1
live 1 0 0 0x0 3
live 1 0 1 0x3 2
entry -
end

# and without.
{"options":{"stack":7},"plan":{"page":16,"sections":[{"attrs":1,"parts":[[1,false]],"emit":"never"},{"attrs":1,"parts":[[1,false]]}],"segments":[{"kind":"load"}],"events":[["sec",0],["seg",0],["sec",1],["endseg",0]]},"groups":[[{"kind":"prelude"}],[{"kind":"object","sections":[{"slot":"must"},{"slot":"must","part":1,"size":2}]}]]}
0 layout
section 0 index - mem 0x0 0 file 0x0 0 align 1 lma 0x0 attrs 1
section 1 index 0 mem 0x0 2 file 0x0 2 align 1 lma 0x0 attrs 1
part 0 mem 0x0 0 file 0x0 0 align 1
part 1 mem 0x0 2 file 0x0 2 align 1
segment 0 mem 0x0 2 file 0x0 2 align 1
live 1 0 0 0x0 0
live 1 0 1 0x0 2
entry -
end

# One that always is, without bytes.
{"options":{"stack":7},"plan":{"page":16,"sections":[{"attrs":1,"parts":[[8,false]],"emit":"always"}],"segments":[{"kind":"load"}],"events":[["seg",0],["sec",0],["endseg",0]]},"groups":[[{"kind":"prelude"}],[{"kind":"object","sections":[]}]]}
0 layout
section 0 index 0 mem 0x0 0 file 0x0 0 align 1 lma 0x0 attrs 1
part 0 mem 0x0 0 file 0x0 0 align 1
segment 0 mem 0x0 0 file 0x0 0 align 1
entry -
end

# One for an input section without bytes.
{"options":{"stack":7},"plan":{"page":16,"sections":[{"attrs":1,"parts":[[8,false]]}],"segments":[{"kind":"load"}],"events":[["seg",0],["sec",0],["endseg",0]]},"groups":[[{"kind":"prelude"}],[{"kind":"object","sections":[{"slot":"must"}]}]]}
0 layout
section 0 index 0 mem 0x0 0 file 0x0 0 align 1 lma 0x0 attrs 1
part 0 mem 0x0 0 file 0x0 0 align 1
segment 0 mem 0x0 0 file 0x0 0 align 1
live 1 0 0 0x0 0
entry -
end

# A stack segment around a section, and one that always is active.
{"options":{"stack":7},"plan":{"page":16,"sections":[{"attrs":1,"parts":[[64,false]]}],"segments":[{"kind":"stack"},{"kind":"other","always":true}],"events":[["seg",0],["sec",0],["endseg",0],["seg",1],["endseg",1]]},"groups":[[{"kind":"prelude"}],[{"kind":"object","sections":[{"slot":"must","size":3}]}]]}
0 layout
section 0 index 0 mem 0x0 64 file 0x0 64 align 64 lma 0x0 attrs 1
part 0 mem 0x0 64 file 0x0 64 align 64
segment 0 mem 0x0 7 file 0x0 0 align 1
segment 1 mem 0x0 0 file 0x0 0 align 1
live 1 0 0 0x0 3
entry -
end

# One without an emitted section.
{"options":{"stack":7},"plan":{"page":16,"sections":[{"attrs":1,"parts":[[1,false]],"emit":"never"}],"segments":[{"kind":"other"}],"events":[["seg",0],["sec",0],["endseg",0]]},"groups":[[{"kind":"prelude"}],[{"kind":"object","sections":[{"slot":"must","size":3}]}]]}
0 layout
section 0 index - mem 0x0 3 file 0x0 3 align 1 lma 0x0 attrs 1
part 0 mem 0x0 3 file 0x0 3 align 1
live 1 0 0 0x0 3
entry -
end

# One that moves no memory.
{"options":{"stack":7},"plan":{"page":16,"sections":[{"attrs":1,"parts":[[8,false]]},{"attrs":1,"parts":[[1,false]]}],"segments":[{"kind":"load"},{"kind":"other"}],"events":[["seg",0],["sec",0],["endseg",0],["seg",1],["sec",1],["endseg",1]]},"groups":[[{"kind":"prelude"}],[{"kind":"object","sections":[{"slot":"must","size":8},{"slot":"must","part":1,"size":7}]}]]}
0 layout
section 0 index 0 mem 0x0 8 file 0x0 8 align 8 lma 0x0 attrs 1
section 1 index 1 mem 0x8 7 file 0x8 7 align 1 lma 0x8 attrs 1
part 0 mem 0x0 8 file 0x0 8 align 8
part 1 mem 0x8 7 file 0x8 7 align 1
segment 0 mem 0x0 8 file 0x0 8 align 8
segment 1 mem 0x8 7 file 0x8 7 align 1
live 1 0 0 0x0 8
live 1 0 1 0x8 7
entry -
end

# Written data and code in one output section, and written data in another.
{"options":{"stack":7},"plan":{"page":16,"sections":[{"attrs":1,"parts":[[8,false],[1,false]]},{"attrs":17,"parts":[[1,false]]}],"segments":[{"kind":"load"}],"events":[["seg",0],["sec",0],["sec",1],["endseg",0]]},"groups":[[{"kind":"prelude"}],[{"kind":"object","sections":[{"slot":"must","size":8,"attrs":2},{"slot":"must","part":1,"attrs":4},{"slot":"must","part":2,"size":2,"attrs":2}]}]]}
0 layout
section 0 index 0 mem 0x0 8 file 0x0 8 align 8 lma 0x0 attrs 7
section 1 index 1 mem 0x8 2 file 0x8 0 align 1 lma 0x8 attrs 19
part 0 mem 0x0 8 file 0x0 8 align 8
part 2 mem 0x8 2 file 0x8 0 align 1
segment 0 mem 0x0 10 file 0x0 8 align 8
live 1 0 0 0x0 8
live 1 0 1 0x0 0
live 1 0 2 0x8 2
entry -
end"#;

#[test]
fn layouts_are_reported(rt: HostRuntime) -> Result<(), Fail> {
    expect_reports(&rt, rt.alloc(), REPORTED)
}

/// Descriptions that aren't laid out, with the statuses and the texts of their runs.
const REFUSED: &str = r#"
# Sections outside all segments, sizes and addresses past the greatest.
{"plan":{"page":1,"sections":[{"attrs":1,"parts":[[1,false]]}],"events":[["sec",0]]},"groups":[[{"kind":"prelude"}],[{"kind":"object","sections":[{"slot":"must","size":1}]}]]} => 1 section 0 is in no segment
{"plan":{"page":1,"base":["num",0],"sections":[{"attrs":1,"parts":[[1,false]]}],"segments":[{"kind":"load"}],"events":[["seg",0],["sec",0],["endseg",0]]},"groups":[[{"kind":"prelude"}],[{"kind":"object","sections":[{"slot":"must","size":18446744073709551615},{"slot":"must","size":18446744073709551615}]}]]} => 1 address overflow: part 0
{"plan":{"page":1,"base":["num",1],"sections":[{"attrs":1,"parts":[[1,false]]}],"segments":[{"kind":"load"}],"events":[["seg",0],["sec",0],["endseg",0]]},"groups":[[{"kind":"prelude"}],[{"kind":"object","sections":[{"slot":"must","size":18446744073709551615}]}]]} => 1 address overflow: event 1
{"options":{"relax":true},"plan":{"page":3},"groups":[[{"kind":"prelude"}]]} => 1 bad link: rule 2, plan
{"plan":{"page":1},"groups":[[],[{"kind":"prelude"}]]} => 1 bad link: rule 9, file 0 0
{"options":{"stack":7},"plan":{"page":16,"sections":[{"attrs":1,"parts":[[1,false]],"emit":"never"},{"attrs":1,"parts":[[1,false]]}],"segments":[{"kind":"load"}],"events":[["sec",0],["seg",0],["sec",1],["endseg",0]]},"groups":[[{"kind":"prelude"}],[{"kind":"object","sections":[{"slot":"must","size":3},{"slot":"must","part":1,"size":2}]}]]} => 1 section 0 is in no segment
{"options":{"stack":7},"plan":{"page":16,"sections":[{"attrs":1,"parts":[[8,false]],"emit":"always"}],"segments":[],"events":[["sec",0]]},"groups":[[{"kind":"prelude"}],[{"kind":"object","sections":[]}]]} => 1 section 0 is in no segment
# One output section, region or segment too many, the third section of an object out of its part, and the fourth part past the greatest.
{"plan":{"page":1,"sections":[«65537 of {}»]}} => 1 too many output sections: 65537, limit 65279
{"plan":{"page":1,"regions":[«65 of {"origin":["dot"],"length":["dot"]}»]},"groups":[[{"kind":"prelude"}]]} => 1 too many regions: 65, limit 64
{"plan":{"page":1,"segments":[«65 of {"kind":"load"}»],"regions":[«65 of {"origin":["dot"],"length":["dot"]}»]},"groups":[[{"kind":"prelude"}]]} => 1 too many segments: 65, limit 64
{"plan":{"page":1,"regions":[«64 of {"origin":["dot"],"length":["dot"]}»]},"groups":[[{"kind":"prelude"}]]} => 1 expression at region 0: no address
{"plan":{"page":1,"sections":[{"parts":[[1,false]]}],"events":[["sec",0]]},"groups":[[{"kind":"prelude"}],[{"kind":"object","sections":[{"slot":"must"},{"slot":"must"},{"slot":"must","part":1}]}]]} => 1 bad link: rule 11, input 1 0 2
{"plan":{"page":1,"sections":[{"attrs":1,"parts":[[8,false],[4,false],[2,false],[1,false]]}],"segments":[{"kind":"load"}],"events":[["seg",0],["sec",0],["endseg",0]]},"groups":[[{"kind":"prelude"}],[{"kind":"object","sections":[{"slot":"must","part":3,"size":18446744073709551615},{"slot":"must","part":3,"size":1}]}]]} => 1 address overflow: part 3
# In a plan, behind its sections and events,
@ {"plan":{"page":16,"sections":[{"parts":[[1,false]]}],"events":[["sec",0]]...},"groups":[[{"kind":"prelude"}]]}
,"custom_base":true => 1 base address (0x0) is less than the size of headers (0x40)
,"singletons":0 => 1 bad link: rule 5, plan
,"primary":0 => 1 bad link: rule 4, part field 12
,"base":["sym",0] => 1 bad link: rule 8, plan
# in the first of two output sections,
@ {"plan":{"page":16,"sections":[{"parts":[[1,false]],...},{"parts":[[1,false]]}],"events":[["sec",0],["sec",1]]},"groups":[[{"kind":"prelude"}]]}
"region":"r" => 1 region of section 0 not declared
# and in an object with a symbol.
@ {"plan":{"page":16,"sections":[{"parts":[[1,false]]}],"events":[["sec",0]]},"groups":[[{"kind":"prelude"},{"kind":"object","symbols":[{"at":["undef"]}],"sections":[...]}]]}
{"slot":"must","size":1,"relocs":[[0,"GotTpOff",0,0,false]]} => 1 bad link: rule 12, input 0 1 0
{"slot":"discard","relocs":[[9,"PltRelative",5,0,false]]} => 1 bad link: rule 12, input 0 1 0
{"slot":"must","sorted":true},{"slot":"merge","strings":true,"data":"61"} => 1 String in merge-string section is not null-terminated: section 0, input 0
{"slot":"must","group":7},{"slot":"merge","strings":true,"data":"61"} => 1 String in merge-string section is not null-terminated: section 0, input 0
# Relocations that want entries of tables, and a candidate that is no section.
@ {"plan":{"page":16,"sections":[{"parts":[[2,false],[1,false]]}],"events":[["sec",0]],"got":0},"groups":[[{"kind":"prelude"},{"kind":"object","symbols":[{"at":["undef"]}],"sections":[{"slot":"must","part":1,"size":1,"relocs":[...]}]}]]}
[0,"GotTpOff",0,0,false] => 1 undefined: symbol 0 from 0 1 0 relocation 0
[0,"Relative",0,0,false]]}],"candidates":[[0,0,1,1]],"x":[{"x":[ => 1 bad link: rule 13, file 0 1
"#;

#[test]
fn refusals_are_told(rt: HostRuntime) -> Result<(), Fail> {
    expect_rows(&rt, rt.alloc(), Asked::Run, REFUSED)
}
