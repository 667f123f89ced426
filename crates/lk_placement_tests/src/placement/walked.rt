//! Where the placement walk puts parts and sections, event after event, and what it refuses.
//!
//! A row has the bytes of the headers, those of all parts, the places of symbols as `PART:OFFSET` or `-`, and then a description.
//! Records are told as in `placed`; refusals as they are.

ghost use Rattle.lk_link.specs.WellFormed.{IsWellFormed};

use crate::placement::OfPlacement;
use crate::placement::placed::add_records;
use crate::rows::{Asked, expect_rows};
use lk_check::check_link;
use lk_input::{InputError, read_link};
use lk_link::{LinkInput, List, PartId, Small64};
use lk_place::{Placed, SymbolPosition, SymbolPositions, compute_layout_sections};
use lk_test_rows::add;
use std::alloc::{AllocError, Global};
use std::test::Fail;

/// Moves of the location, between sections of 8 and 4 bytes.
const MOVES: &str = r#"
@ 0 8,4 {"plan":{"page":16,"sections":[{"attrs":1,"parts":[[1,false]]},{"attrs":1,"parts":[[1,false]]}],"segments":[{"kind":"load"}],"events":[...]},"groups":[[{"kind":"prelude"}],[{"kind":"script"}]]}
["seg",0],["sec",0],["loc",["num",4]],["sec",1],["endseg",0] | ["seg",0],["sec",0],["addr",["num",4]],["sec",1],["endseg",0] => refused LocationBackwards { from: 8, to: 4 }
["seg",0],["sec",0],["locrel",["num",7],0],["sec",1],["endseg",0] | ["seg",0],["sec",0],["locrel",["num",7],1],["sec",1],["endseg",0] => refused LocationBackwards { from: 8, to: 7 }
["seg",0],["sec",0],["loc",["num",32]],["sec",1],["endseg",0] | ["seg",0],["sec",0],["locrel",["num",32],0],["sec",1],["endseg",0] | ["seg",0],["sec",0],["loc",["add",["addr",0],["mul",["sizeof",0],["num",4]]]],["sec",1],["endseg",0] => parts 0,8,0,8,1 32,4,32,4,1 sections 0,8,0,8,1 32,4,32,4,1 counters [0, 32]
["seg",0],["sec",0],["addr",["num",32]],["sec",1],["endseg",0] => parts 0,8,0,8,1 32,4,32,4,1 sections 0,8,0,8,1 32,4,32,4,1 counters [0]
["seg",0],["locrel",["num",3],0],["sec",0],["sec",1],["endseg",0] => parts 3,8,3,8,1 11,4,11,4,1 sections 3,8,3,8,1 11,4,11,4,1 counters [0, 3]
# The location is the one that waits, else memory.
["seg",0],["sec",0],["loc",["add",["dot"],["num",4]]],["sec",1],["endseg",0] => parts 0,8,0,8,1 12,4,12,4,1 sections 0,8,0,8,1 12,4,12,4,1 counters [0, 12]
["seg",0],["sec",0],["loc",["num",32]],["loc",["add",["dot"],["num",1]]],["sec",1],["endseg",0] => parts 0,8,0,8,1 33,4,33,4,1 sections 0,8,0,8,1 33,4,33,4,1 counters [0, 32, 33]
["seg",0],["sec",0],["sec",1],["loc",["num",99]],["endseg",0] => parts 0,8,0,8,1 8,4,8,4,1 sections 0,8,0,8,1 8,4,8,4,1 counters [0, 99]
# A load segment opens at a location that waits, and the next section takes it all the same.
["loc",["num",40]],["seg",0],["sec",0],["sec",1],["endseg",0] => parts 40,8,8,8,1 48,4,16,4,1 sections 40,8,8,8,1 48,4,16,4,1 counters [0, 40]
["seg",0],["sec",0],["loc",["num",18446744073709551611]],["sec",1],["endseg",0] => parts 0,8,0,8,1 18446744073709551611,4,18446744073709551611,4,1 sections 0,8,0,8,1 18446744073709551611,4,18446744073709551611,4,1 counters [0, 18446744073709551611]
["seg",0],["sec",0],["loc",["num",18446744073709551612]],["sec",1],["endseg",0] => refused AddressOverflow { place: Event(3) }
["seg",0],["sec",0],["loc",["div",["num",1],["num",0]]],["sec",1],["endseg",0] => refused Expression { place: Event(2), cause: DivideByZero }
["seg",0],["loc",["addr",0]],["sec",0],["sec",1],["endseg",0] | ["seg",0],["loc",["sizeof",1]],["sec",0],["sec",1],["endseg",0] => refused Expression { place: Event(1), cause: NoAddress }
["seg",0],["sec",0],["sec",1],["endseg",0],["addr",["sub",["dot"],["num",13]]] => refused Expression { place: Event(4), cause: Overflow }
# What takes no bytes of the file, or has no memory, may go back; the file alone may pass its end.
@ 0 8,4 {"plan":{"page":16,"base":["num",64],"sections":[...],"segments":[{"kind":"load"}],"events":[["seg",0],["sec",0],["locrel",["num",3],0],["sec",1],["endseg",0]]},"groups":[[{"kind":"prelude"}],[{"kind":"script"}]]}
{"attrs":0,"parts":[[1,false]]},{"attrs":0,"parts":[[1,false]]} => parts 0,8,0,8,1 0,4,8,4,1 sections 0,8,0,8,1 0,4,8,4,1 counters [64, 3]
{"attrs":1,"parts":[[1,false]]},{"attrs":17,"parts":[[1,false]]} => refused LocationBackwards { from: 64, to: 3 }
@ 0 8,4 {"plan":{"page":16,"sections":[{"attrs":1,"parts":[[1,false]]},{"attrs":17,"parts":[[1,false]]}],"segments":[{"kind":"load"}],"events":[["seg",0],["sec",0],["addr",["num",...]],["sec",1],["endseg",0]]},"groups":[[{"kind":"prelude"}]]}
2 => parts 0,8,0,8,1 2,4,8,0,1 sections 0,8,0,8,1 2,4,8,0,1 counters [0]
18446744073709551611 => parts 0,8,0,8,1 18446744073709551611,4,8,0,1 sections 0,8,0,8,1 18446744073709551611,4,8,0,1 counters [0]
18446744073709551612 => refused AddressOverflow { place: Event(3) }
@ 0 8,0 {"plan":{"page":16,"sections":[{"attrs":0,"parts":[[1,false]]},{"attrs":1,"parts":[[1,false]]}],"segments":[{"kind":"load"}],"events":[["seg",0],["sec",0],["addr",["num",...]],["sec",1],["endseg",0]]},"groups":[[{"kind":"prelude"}]]}
18446744073709551607 => parts 0,8,0,8,1 18446744073709551607,0,18446744073709551615,0,1 sections 0,8,0,8,1 18446744073709551607,0,18446744073709551615,0,1 counters [0]
18446744073709551608 => refused AddressOverflow { place: Event(3) }
# A symbol has an address where its part is placed.
@ 0 8,4 0:4 1:0 - {"plan":{"page":16,"sections":[{"attrs":1,"parts":[[1,false]]},{"attrs":1,"parts":[[1,false]]}],"segments":[{"kind":"load"}],"events":[["seg",0],["sec",0],["addr",["add",["sym",...],["num",9]]],["sec",1],["endseg",0]]},"groups":[[{"kind":"prelude"}],[{"kind":"object","symbols":[{"at":["sec",0,4]},{"at":["sec",1,0]},{"at":["sec",1,1]},{"at":["undef"]},{"at":["abs",20]}],"sections":[{"slot":"must","size":8},{"slot":"must","part":1,"size":4}]}]]}
0 => parts 0,8,0,8,1 13,4,13,4,1 sections 0,8,0,8,1 13,4,13,4,1 counters [0]
4 => parts 0,8,0,8,1 29,4,29,4,1 sections 0,8,0,8,1 29,4,29,4,1 counters [0]
1 | 2 => refused Expression { place: Event(2), cause: NoAddress }
3 => refused Expression { place: Event(2), cause: Missing }
# In partial output all counts from 0, and a location moves the file all the same.
@ 0 4,4 {"plan":{"page":16,"sections":[{"attrs":1,"parts":[[1,false]]},{"attrs":1,"parts":[[1,false]]}],"segments":[],"events":[["sec",0],["addr",["num",100]],["sec",1]]},"groups":[[{"kind":"prelude"}]],"options":{"output":"partial"}}
 => parts 0,4,0,4,1 0,4,104,4,1 sections 0,4,0,4,1 0,4,104,4,1 counters [0]
"#;

/// Regions.
const REGIONS: &str = r#"
@ 0 ... {"plan":{"page":16,"sections":[{"attrs":1,"region":"ram","parts":[[1,false]]}],"segments":[{"kind":"load"}],"regions":[{"name":"ram","origin":["num",256],"length":["num",8]}],"events":[["seg",0],["sec",0],["endseg",0]]},"groups":[[{"kind":"prelude"}]]}
8 => parts 256,8,0,8,1 sections 256,8,0,8,1 counters [0]
9 => refused RegionOverflow { region: RegionId { number: 0 }, by: 1 }
18446744073709551359 => refused RegionOverflow { region: RegionId { number: 0 }, by: 18446744073709551351 }
18446744073709551360 => refused AddressOverflow { place: Event(1) }
# What is used stays used, also where something else stands between; the second section stands in no region.
@ 0 ... {"plan":{"page":16,"sections":[{"attrs":1,"region":"ram","parts":[[1,false]]},{"attrs":1,"parts":[[1,false]]},{"attrs":1,"region":"ram","parts":[[1,false]]}],"segments":[{"kind":"load"}],"regions":[{"name":"rom","origin":["num",0],"length":["num",0]},{"name":"ram","origin":["num",256],"length":["num",8]}],"events":[["seg",0],["sec",0],["sec",1],["sec",2],["endseg",0]]},"groups":[[{"kind":"prelude"}]]}
4,2,4 => parts 256,4,0,4,1 260,2,4,2,1 260,4,6,4,1 sections 256,4,0,4,1 260,2,4,2,1 260,4,6,4,1 counters [0]
4,2,5 => refused RegionOverflow { region: RegionId { number: 1 }, by: 1 }
10,2,5 => refused RegionOverflow { region: RegionId { number: 1 }, by: 2 }
# Locations inside.
@ 0 6 {"plan":{"page":16,"sections":[{"attrs":1,"region":"ram","parts":[[1,false]]}],"segments":[{"kind":"load"}],"regions":[{"name":"ram","origin":["num",256],"length":["num",8]}],"events":[["seg",0],["addr",["num",...]],["sec",0],["endseg",0]]},"groups":[[{"kind":"prelude"}]]}
256 => parts 256,6,0,6,1 sections 256,6,0,6,1 counters [0]
258 => parts 258,6,2,6,1 sections 258,6,2,6,1 counters [0]
264 => refused RegionOverflow { region: RegionId { number: 0 }, by: 6 }
265 => refused OutsideRegion { event: 2, address: 265 }
268 => refused OutsideRegion { event: 2, address: 268 }
255 => refused OutsideRegion { event: 2, address: 255 }
# A second section's location begins where the first ends, and may stand at the end of a region as long that begins there.
@ 0 4,2 {"plan":{"page":16,"sections":[{"attrs":1,"region":"ram","parts":[[1,false]]},{"attrs":1,"region":"ram","parts":[[1,false]]}],"segments":[{"kind":"load"}],"regions":[{"name":"ram","origin":["num",256],"length":["num",8]}],"events":[["seg",0],["sec",0],["addr",["num",...]],["sec",1],["endseg",0]]},"groups":[[{"kind":"prelude"}]]}
262 => parts 256,4,0,4,1 262,2,6,2,1 sections 256,4,0,4,1 262,2,6,2,1 counters [0]
266 => refused RegionOverflow { region: RegionId { number: 0 }, by: 4 }
268 => refused RegionOverflow { region: RegionId { number: 0 }, by: 6 }
259 => refused OutsideRegion { event: 3, address: 259 }
269 => refused OutsideRegion { event: 3, address: 269 }
# A bound that is only compared may pass 2^64 - 1.
@ 0 ... {"plan":{"page":16,"sections":[{"attrs":1,"region":"r","parts":[[1,false]]}],"segments":[{"kind":"load"}],"regions":[{"name":"r","origin":["num",18446744073709551615],"length":["num",18446744073709551615]}],"events":[["seg",0],["sec",0],["endseg",0]]},"groups":[[{"kind":"prelude"}]]}
0 => parts 18446744073709551615,0,0,0,1 sections 18446744073709551615,0,0,0,1 counters [0]
1 => refused AddressOverflow { place: Event(1) }
# Regions that aren't there, and names that stand twice.
@ 0 9,9 {"plan":{"page":16,"sections":[{"attrs":1...,"parts":[[1,false]]}],"segments":[{"kind":"load"}],"events":[["seg",0],["sec",0],["sec",1],["endseg",0]]},"groups":[[{"kind":"prelude"}]]}
,"region":"ram","parts":[[1,false]]},{"attrs":1 => refused RegionUnknown { section: OutputSectionId { number: 0 } }
,"parts":[[1,false]]},{"attrs":1,"region":"ram" => refused RegionUnknown { section: OutputSectionId { number: 1 } }
@ 0 9,9 {"plan":{"page":16,"sections":[{"attrs":1,"region":"ram","parts":[[1,false]]},{"attrs":1,"region":"rom","parts":[[1,false]]}],"segments":[{"kind":"load"}],"regions":[...],"events":[["seg",0],["sec",0],["sec",1],["endseg",0]]},"groups":[[{"kind":"prelude"}]]}
{"name":"ram","origin":["num",256],"length":["num",8]} => refused RegionOverflow { region: RegionId { number: 0 }, by: 1 }
{"name":"ram","origin":["num",256],"length":["num",9]} => refused RegionUnknown { section: OutputSectionId { number: 1 } }
{"name":"ram","origin":["num",256],"length":["num",9]},{"name":"ram","origin":["num",256],"length":["num",9]} => refused RegionDuplicate { region: RegionId { number: 1 } }
{"name":"ram","origin":["num",256],"length":["headers"]} => refused Expression { place: Region(0), cause: NoAddress }
{"name":"ram","origin":["num",256],"length":["num",9]},{"name":"rom","origin":["num",0],"length":["num",9]},{"name":"rom","origin":["num",0],"length":["num",9]} => refused RegionDuplicate { region: RegionId { number: 2 } }
{"name":"ram","origin":["num",256],"length":["num",9]},{"name":"rom","origin":["num",0],"length":["div",["num",1],["num",0]]} => refused Expression { place: Region(1), cause: DivideByZero }
# The name of a region comes before its numbers, and both before the next region's.
{"name":"ram","origin":["num",256],"length":["num",9]},{"name":"ram","origin":["dot"],"length":["num",9]} => refused RegionDuplicate { region: RegionId { number: 1 } }
{"name":"ram","origin":["num",256],"length":["dot"]},{"name":"ram","origin":["num",256],"length":["num",9]} => refused Expression { place: Region(0), cause: NoAddress }
{"name":"ram","origin":["sub",["num",0],["num",1]],"length":["div",["num",1],["num",0]]} => refused Expression { place: Region(0), cause: Overflow }
# A section without memory uses nothing of its region, but what a location takes.
@ 0 9 {"plan":{"page":16,"sections":[{"attrs":0,"region":"r","parts":[[1,false]]}],"segments":[{"kind":"load"}],"regions":[{"name":"r","origin":["num",0],"length":["num",1]}],"events":[["seg",0],["sec",0],["endseg",0]]},"groups":[[{"kind":"prelude"}]]}
 => parts 0,9,0,9,1 sections 0,9,0,9,1 counters [0]
# Nor does one of partial output, where a region moves nothing.
@ 0 9 {"options":{"output":"partial"},"plan":{"page":16,"sections":[{"attrs":1,"region":"r","parts":[[1,false]]}],"regions":[{"name":"r","origin":["num",256],"length":["num",1]}],"events":[...["sec",0]]},"groups":[[{"kind":"prelude"}]]}
 => parts 0,9,0,9,1 sections 0,9,0,9,1 counters [0]
["addr",["num",257]], => parts 0,9,1,9,1 sections 0,9,1,9,1 counters [0]
["addr",["num",258]], => refused OutsideRegion { event: 1, address: 258 }
# Zero-fill thread-local data use their region up.
@ 0 4,2 {"plan":{"page":16,"sections":[{"attrs":25,"region":"ram","parts":[[1,false]]},{"attrs":1,"region":"ram","parts":[[1,false]]}],"segments":[{"kind":"load"}],"regions":[{"name":"ram","origin":["num",256],"length":["num",...]}],"events":[["seg",0],["sec",0],["sec",1],["endseg",0]]},"groups":[[{"kind":"prelude"}]]}
6 => parts 256,4,0,0,1 260,2,0,2,1 sections 256,4,0,0,1 260,2,0,2,1 counters [0]
5 => refused RegionOverflow { region: RegionId { number: 0 }, by: 1 }
# A region as long as memory.
@ 0 ... {"plan":{"page":16,"sections":[{"attrs":1,"region":"r","parts":[[1,false]]},{"attrs":1,"region":"r","parts":[[1,false]]}],"segments":[{"kind":"load"}],"regions":[{"name":"r","origin":["num",0],"length":["num",18446744073709551615]}],"events":[["seg",0],["sec",0],["sec",1],["endseg",0]]},"groups":[[{"kind":"prelude"}]]}
18446744073709551615,0 => parts 0,18446744073709551615,0,18446744073709551615,1 18446744073709551615,0,18446744073709551615,0,1 sections 0,18446744073709551615,0,18446744073709551615,1 18446744073709551615,0,18446744073709551615,0,1 counters [0]
18446744073709551615,1 => refused AddressOverflow { place: Event(2) }
"#;

/// Thread-local data, parts, bases, and the ends of numbers.
const WALKS: &str = r#"
# Zero-fill data give memory back, to what follows in the segment and to the next load segment, which begins at a page.
@ 0 4,16,4 {"plan":{"page":4096,"base":["num",4096],"sections":[{"attrs":9,"parts":[[4,false]]},{"attrs":25,"parts":[[16,false]]},{"attrs":1,"parts":[[4,false]]}],"segments":[{"kind":"load"},{"kind":"load"}],"events":[...]},"groups":[[{"kind":"prelude"}]]}
["seg",0],["sec",0],["sec",1],["sec",2],["endseg",0],["seg",1],["endseg",1] => parts 4096,4,0,4,4 4112,16,4,0,16 4100,4,4,4,4 sections 4096,4,0,4,4 4112,16,4,0,16 4100,4,4,4,4 counters [4096]
["seg",0],["sec",0],["sec",1],["endseg",0],["seg",1],["sec",2],["endseg",1] => parts 4096,4,0,4,4 4112,16,4,0,16 8196,4,4,4,4 sections 4096,4,0,4,4 4112,16,4,0,16 8196,4,4,4,4 counters [4096]
# A location that waits for a section is where two load segments open behind zero-fill data; the file goes on once.
@ 0 4,16,4 {"plan":{"page":4096,"base":["num",4096],"sections":[{"attrs":9,"parts":[[4,false]]},{"attrs":25,"parts":[[16,false]]},{"attrs":1,"parts":[[4,false]]}],"segments":[{"kind":"load"},{"kind":"load"},{"kind":"load"},{"kind":"other"}],"events":[...]},"groups":[[{"kind":"prelude"}],[{"kind":"script"}]]}
["seg",0],["sec",0],["sec",1],["endseg",0],["loc",["num",12288]],["seg",1],["endseg",1],["seg",2],["sec",2],["endseg",2],["seg",3],["endseg",3] => parts 4096,4,0,4,4 4112,16,4,0,16 12288,4,4096,4,4 sections 4096,4,0,4,4 4112,16,4,0,16 12288,4,4096,4,4 counters [4096, 12288]
# Where such data are longer than a page, the location tells where memory is: given back where a load segment opens, and behind
# them where one of another kind does.
@ 0 4,8000,4 {"plan":{"page":4096,"base":["num",4096],"sections":[{"attrs":9,"parts":[[4,false]]},{"attrs":25,"parts":[[16,false]]},{"attrs":1,"parts":[[4,false]]}],"segments":[{"kind":"load"},{"kind":"load"},{"kind":"load"},{"kind":"other"}],"events":[...]},"groups":[[{"kind":"prelude"}],[{"kind":"script"}]]}
["seg",0],["sec",0],["sec",1],["endseg",0],["seg",1],["loc",["dot"]],["sec",2],["endseg",1],["seg",2],["endseg",2],["seg",3],["endseg",3] => parts 4096,4,0,4,4 4112,8000,4,0,16 8196,4,4,4,4 sections 4096,4,0,4,4 4112,8000,4,0,16 8196,4,4,4,4 counters [4096, 8196]
["seg",0],["sec",0],["sec",1],["endseg",0],["seg",3],["loc",["dot"]],["sec",2],["endseg",3],["seg",1],["endseg",1],["seg",2],["endseg",2] => parts 4096,4,0,4,4 4112,8000,4,0,16 12112,4,8016,4,4 sections 4096,4,0,4,4 4112,8000,4,0,16 12112,4,8016,4,4 counters [4096, 12112]
# The first of a run is rounded up for all, without bytes too, and the file with it.
@ 0 1,0,1 {"plan":{"page":16,"sections":[{"attrs":1,"parts":[[1,false]]},{"attrs":9,"parts":[[1,false]],"align":64},{"attrs":1,"parts":[[1,false]]}],"segments":[{"kind":"load"}],"events":[["seg",0],["sec",0],["sec",1],["sec",2],["endseg",0]]},"groups":[[{"kind":"prelude"}]]}
 => parts 0,1,0,1,1 64,0,64,0,64 64,1,64,1,1 sections 0,1,0,1,1 64,0,64,0,64 64,1,64,1,1 counters [0]
# Runs that are broken by an empty section, and one whose first section takes a location.
@ 0 1,2,0,2,8 {"plan":{"page":16,"sections":[{"attrs":1,"parts":[[1,false]]},{"attrs":9,"parts":[[2,false]]},{"attrs":...,"parts":[[1,false]]},{"attrs":9,"parts":[[2,false]]},{"attrs":25,"parts":[[8,false]]}],"segments":[{"kind":"load"}],"events":[["seg",0],["sec",0],["sec",1],["sec",2],["sec",3],["sec",4],["endseg",0]]},"groups":[[{"kind":"prelude"}]]}
1 => parts 0,1,0,1,1 8,2,8,2,2 10,0,10,0,1 16,2,16,2,2 24,8,18,0,8 sections 0,1,0,1,1 8,2,8,2,2 10,0,10,0,1 16,2,16,2,2 24,8,18,0,8 counters [0]
9 => parts 0,1,0,1,1 8,2,8,2,2 10,0,10,0,1 10,2,10,2,2 16,8,12,0,8 sections 0,1,0,1,1 8,2,8,2,2 10,0,10,0,1 10,2,10,2,2 16,8,12,0,8 counters [0]
@ 0 1,2,8 {"plan":{"page":16,"sections":[{"attrs":1,"parts":[[1,false]]},{"attrs":9,"parts":[[2,false]]},{"attrs":25,"parts":[[8,false]]}],"segments":[{"kind":"load"}],"events":[["seg",0],["sec",0],["addr",["num",...]],["sec",1],["sec",2],["endseg",0]]},"groups":[[{"kind":"prelude"}]]}
2 => parts 0,1,0,1,1 2,2,2,2,2 8,8,4,0,8 sections 0,1,0,1,1 2,2,2,2,2 8,8,4,0,8 counters [0]
# A secondary of zero-fill data that its primary backs, and an empty section at its own alignment.
@ 0 4,4,4 {"plan":{"page":16,"sections":[{"attrs":1,"parts":[[1,false]]},{"attrs":24,"parts":[[1,false]],"primary":0},{"attrs":1,"parts":[[1,false]]}],"segments":[{"kind":"load"}],"events":[["seg",0],["sec",0],["sec",1],["sec",2],["endseg",0]]},"groups":[[{"kind":"prelude"}]]}
 => parts 0,4,0,4,1 4,4,4,4,1 4,4,8,4,1 sections 0,4,0,4,1 4,4,4,4,1 4,4,8,4,1 counters [0]
@ 0 1,0 {"plan":{"page":16,"sections":[{"attrs":1,"parts":[[1,false]]},{"attrs":1,"parts":[[64,false]]}],"segments":[{"kind":"load"}],"events":[["seg",0],["sec",0],["sec",1],["endseg",0]]},"groups":[[{"kind":"prelude"}]]}
 => parts 0,1,0,1,1 1,0,1,0,1 sections 0,1,0,1,1 1,0,1,0,1 counters [0]
# The parts of a section: those with bytes are walked, the first at the greatest alignment; the others rest beside it.
@ 0 ... {"plan":{"page":1,"base":["num",1],"sections":[{"attrs":1,"parts":[[8,false],[4,false],[2,false]]}],"segments":[{"kind":"load"}],"events":[["seg",0],["sec",0],["endseg",0]]},"groups":[[{"kind":"prelude"}]]}
3,5,0 => parts 8,3,0,3,8 12,5,4,5,4 8,0,0,0,2 sections 8,9,0,9,8 counters [1]
0,5,0 => parts 4,0,0,0,8 4,5,0,5,4 4,0,0,0,2 sections 4,5,0,5,4 counters [1]
# Where memory begins, by headers of 512 bytes.
@ 512 8 {"plan":{"page":4096,"sections":[{"attrs":1,"parts":[[1,false]]}],"segments":[{"kind":"load"}],"events":[["seg",0],["sec",0],["endseg",0]],"base":["num",...},"groups":[[{"kind":"prelude"}]]}
65536],"custom_base":true => parts 61440,8,0,8,1 sections 61440,8,0,8,1 counters [65536]
66304],"custom_base":true => parts 65536,8,0,8,1 sections 65536,8,0,8,1 counters [66304]
66304] => parts 69632,8,0,8,1 sections 69632,8,0,8,1 counters [66304]
256],"custom_base":true => refused BaseTooLow { base: 256, headers: 512 }
18446744073709547520] => parts 18446744073709547520,8,0,8,1 sections 18446744073709547520,8,0,8,1 counters [18446744073709547520]
18446744073709547521] => refused AddressOverflow { place: Event(0) }
# Bytes up to the end of memory.
@ 0 ... {"plan":{"page":1,"sections":[{"attrs":1,"parts":[[1,false]]},{"attrs":1,"parts":[[1,false]]}],"segments":[{"kind":"load"}],"events":[["seg",0],["sec",0],["sec",1],["endseg",0]]},"groups":[[{"kind":"prelude"}]]}
18446744073709551615,0 => parts 0,18446744073709551615,0,18446744073709551615,1 18446744073709551615,0,18446744073709551615,0,1 sections 0,18446744073709551615,0,18446744073709551615,1 18446744073709551615,0,18446744073709551615,0,1 counters [0]
18446744073709551615,1 => refused AddressOverflow { place: Event(2) }
@ 0 ... {"plan":{"page":1,"base":["num",1],"sections":[{"attrs":1,"parts":[[1,false]]}],"segments":[{"kind":"load"}],"events":[["seg",0],["sec",0],["endseg",0]]},"groups":[[{"kind":"prelude"}]]}
18446744073709551614 => parts 1,18446744073709551614,0,18446744073709551614,1 sections 1,18446744073709551614,0,18446744073709551614,1 counters [1]
18446744073709551615 => refused AddressOverflow { place: Event(1) }
# What a base can be worth: before memory begins a location is 0, and nothing has an address.
@ 0 8 {"plan":{"page":16,"sections":[{"attrs":1,"parts":[[1,false]]}],"segments":[{"kind":"load"}],"regions":[{"name":"r","origin":["num",32],"length":["num",8]}],"events":[["seg",0],["sec",0],["endseg",0]],"base":...},"groups":[[{"kind":"prelude"}]]}
["dot"] => parts 0,8,0,8,1 sections 0,8,0,8,1 counters [0]
["add",["origin",0],["length",0]] => parts 48,8,0,8,1 sections 48,8,0,8,1 counters [40]
["addr",0] | ["sizeof",0] => refused Expression { place: Base, cause: NoAddress }
["div",["num",1],["num",0]] => refused Expression { place: Base, cause: DivideByZero }
["sub",["num",1],["num",2]] => refused Expression { place: Base, cause: Overflow }
# What is rounded up passes the end of memory: a part, the first of a thread-local run; and without memory a count of its own,
# where the file stands still.
@ 0 0,0 {"plan":{"page":1,"base":["num",18446744073709551615],"sections":[{"attrs":1,"parts":[[1,false]]},{"attrs":...,false]]}],"events":[["sec",0],["sec",1]]},"groups":[[{"kind":"prelude"}]]}
1,"parts":[[2 => parts 18446744073709551615,0,0,0,1 18446744073709551615,0,0,0,1 sections 18446744073709551615,0,0,0,1 18446744073709551615,0,0,0,1 counters [18446744073709551615]
1,"align":2,"parts":[[1 | 9,"align":2,"parts":[[1 => refused AddressOverflow { place: Event(1) }
@ 0 ... {"plan":{"page":1,"sections":[{"attrs":16,"parts":[[2,false],[1,false]]}],"events":[["sec",0]]},"groups":[[{"kind":"prelude"}]]}
18446744073709551614,1 => parts 0,18446744073709551614,0,0,2 18446744073709551614,1,0,0,1 sections 0,18446744073709551615,0,0,2 counters [0]
18446744073709551614,2 | 18446744073709551615,1 => refused AddressOverflow { place: Event(0) }
"#;

/// Load addresses, of sections of 5 and 3 bytes at 32.
const LOADS: &str = r#"
# A section is placed for its own load address, and the location is behind it.
@ 0 5,3 {"plan":{"page":16,"base":["num",32],"sections":[{"attrs":1,"parts":[[1,false]],"at":...},{"attrs":1,"parts":[[1,false]]}],"segments":[{"kind":"load"}],"events":[["seg",0],["sec",0],["sec",1],["endseg",0]]},"groups":[[{"kind":"prelude"}]]}
["add",["addr",0],["sizeof",0]] | ["dot"] => parts 32,5,0,5,1,37 37,3,5,3,1 sections 32,5,0,5,1,37 37,3,5,3,1 counters [32]
["num",18446744073709551615] => parts 32,5,0,5,1,18446744073709551615 37,3,5,3,1 sections 32,5,0,5,1,18446744073709551615 37,3,5,3,1 counters [32]
["addr",1] | ["sizeof",1] => refused Expression { place: Section(0), cause: NoAddress }
["sub",["num",0],["num",1]] => refused Expression { place: Section(0), cause: Overflow }
# The second section's.
@ 0 5,3 {"plan":{"page":16,"base":["num",32],"sections":[{"attrs":1,"parts":[[1,false]]},{"attrs":1,"parts":[[1,false]],"at":...}],"segments":[{"kind":"load"}],"events":[["seg",0],["sec",0],["sec",1],["endseg",0]]},"groups":[[{"kind":"prelude"}]]}
["addr",0] => parts 32,5,0,5,1 37,3,5,3,1,32 sections 32,5,0,5,1 37,3,5,3,1,32 counters [32]
["sub",["dot"],["num",40]] => parts 32,5,0,5,1 37,3,5,3,1,0 sections 32,5,0,5,1 37,3,5,3,1,0 counters [32]
["div",["num",1],["num",0]] => refused Expression { place: Section(1), cause: DivideByZero }
# It is that of all parts, and of a section without memory, whose bytes count from 0 while the location stays.
@ 0 4,1 {"plan":{"page":16,"base":["num",32],"sections":[{"attrs":...,"parts":[[4,false],[1,false]],"at":["add",["dot"],["num",100]]}],"segments":[{"kind":"load"}],"events":[["seg",0],["sec",0],["endseg",0]]},"groups":[[{"kind":"prelude"}]]}
1 => parts 32,4,0,4,4,137 36,1,4,1,1,137 sections 32,5,0,5,4,137 counters [32]
0 => parts 0,4,0,4,4,132 4,1,4,1,1,132 sections 0,5,0,5,4,132 counters [32]
# A symbol in the section has an address there.
@ 0 5 0:4 {"plan":{"page":16,"base":["num",32],"sections":[{"attrs":1,"parts":[[1,false]],"at":["sym",0]}],"segments":[{"kind":"load"}],"events":[["seg",0],["sec",0],["endseg",0]]},"groups":[[{"kind":"prelude"}],[{"kind":"object","symbols":[{"at":["sec",0,4]}],"sections":[{"slot":"must","size":5}]}]]}
 => parts 32,5,0,5,1,36 sections 32,5,0,5,1,36 counters [32]
# The end of a section comes before its load address, and that before the end of its region.
@ 0 ... {"plan":{"page":16,"sections":[{"attrs":1,"region":"ram","parts":[[1,false]],"at":["addr",1]},{"attrs":1,"parts":[[1,false]]}],"segments":[{"kind":"load"}],"regions":[{"name":"ram","origin":["num",256],"length":["num",8]}],"events":[["seg",0],["sec",0],["sec",1],["endseg",0]]},"groups":[[{"kind":"prelude"}]]}
18446744073709551360,0 => refused AddressOverflow { place: Event(1) }
9,0 => refused Expression { place: Section(0), cause: NoAddress }
"#;

/// Segments that open nested, across one another or around nothing, and where a location waits; and what that does to the file.
const OPENINGS: &str = r#"
# Nested; across; the second around nothing or inside no other; both behind all sections. The third section, aligned at 64, counts
# for the segment that it is inside, and for no other.
@ 0 8,4,2 {"plan":{"page":16,"base":["num",3],"sections":[{"attrs":1,"parts":[[1,false]]},{"attrs":1,"parts":[[4,false]]},{"attrs":1,"parts":[[64,false]]}],"segments":[{"kind":"load"},{"kind":"load"}],"events":[...]},"groups":[[{"kind":"prelude"}]]}
["seg",0],["sec",0],["seg",1],["sec",1],["endseg",1],["sec",2],["endseg",0] => parts 64,8,0,8,1 88,4,8,4,4 128,2,64,2,64 sections 64,8,0,8,1 88,4,8,4,4 128,2,64,2,64 counters [3]
["seg",0],["sec",0],["seg",1],["sec",1],["endseg",0],["sec",2],["endseg",1] | ["seg",1],["endseg",1],["sec",0],["seg",0],["sec",1],["sec",2],["endseg",0] => parts 16,8,0,8,1 72,4,8,4,4 128,2,64,2,64 sections 16,8,0,8,1 72,4,8,4,4 128,2,64,2,64 counters [3]
["seg",0],["seg",1],["sec",0],["endseg",0],["sec",1],["endseg",1],["sec",2] | ["seg",1],["seg",0],["endseg",0],["sec",0],["sec",1],["endseg",1],["sec",2] => parts 16,8,0,8,1 24,4,8,4,4 64,2,64,2,64 sections 16,8,0,8,1 24,4,8,4,4 64,2,64,2,64 counters [3]
["sec",2],["sec",1],["sec",0],["seg",1],["seg",0],["endseg",0],["endseg",1] => parts 72,8,8,8,1 68,4,4,4,4 64,2,0,2,64 sections 72,8,8,8,1 68,4,4,4,4 64,2,0,2,64 counters [3]
# Where a location waits the file goes on to where it is the same modulo 16, as far as there are numbers.
@ 0 18446744073709551615,0 {"plan":{"page":16,"sections":[{"parts":[[1,false]]},{"attrs":1,"parts":[[1,false]]}],"segments":[{"kind":"load"}],"events":[["sec",0],["addr",["num",...]],["seg",0],["sec",1],["endseg",0]]},"groups":[[{"kind":"prelude"}]]}
15 => parts 0,18446744073709551615,0,18446744073709551615,1 15,0,18446744073709551615,0,1 sections 0,18446744073709551615,0,18446744073709551615,1 15,0,18446744073709551615,0,1 counters [0]
18446744073709551615 => parts 0,18446744073709551615,0,18446744073709551615,1 18446744073709551615,0,18446744073709551615,0,1 sections 0,18446744073709551615,0,18446744073709551615,1 18446744073709551615,0,18446744073709551615,0,1 counters [0]
0 | 14 | 18446744073709551614 => refused AddressOverflow { place: Event(2) }
# Where none waits memory is rounded up, and goes on by the file modulo 16, which never passes the end.
@ 0 15,0 {"plan":{"page":16,"base":["num",...],"sections":[{"parts":[[1,false]]},{"attrs":1,"parts":[[1,false]]}],"segments":[{"kind":"load"}],"events":[["sec",0],["seg",0],["sec",1],["endseg",0]]},"groups":[[{"kind":"prelude"}]]}
18446744073709551600 => parts 0,15,0,15,1 18446744073709551615,0,15,0,1 sections 0,15,0,15,1 18446744073709551615,0,15,0,1 counters [18446744073709551600]
18446744073709551601 => refused AddressOverflow { place: Event(1) }
"#;

/// Rows of thread-local sections that others break, and what is saved for them.
const RUNS: &str = r#"
# A section with bytes between: of the file and memory, of memory alone, of the file alone; the next row is rounded up anew, and the
# file with it. A thread-local one breaks nothing.
@ 0 1,2,3,2,8 {"plan":{"page":16,"sections":[{"attrs":1,"parts":[[1,false]]},{"attrs":9,"parts":[[2,false]]},{"attrs":...,"parts":[[1,false]]},{"attrs":9,"parts":[[2,false]]},{"attrs":25,"parts":[[8,false]]}],"segments":[{"kind":"load"}],"events":[["seg",0],["sec",0],["sec",1],["sec",2],["sec",3],["sec",4],["endseg",0]]},"groups":[[{"kind":"prelude"}]]}
1 => parts 0,1,0,1,1 8,2,8,2,2 10,3,10,3,1 16,2,16,2,2 24,8,18,0,8 sections 0,1,0,1,1 8,2,8,2,2 10,3,10,3,1 16,2,16,2,2 24,8,18,0,8 counters [0]
17 => parts 0,1,0,1,1 8,2,8,2,2 10,3,10,0,1 16,2,14,2,2 24,8,16,0,8 sections 0,1,0,1,1 8,2,8,2,2 10,3,10,0,1 16,2,14,2,2 24,8,16,0,8 counters [0]
0 => parts 0,1,0,1,1 8,2,8,2,2 0,3,10,3,1 16,2,20,2,2 24,8,22,0,8 sections 0,1,0,1,1 8,2,8,2,2 0,3,10,3,1 16,2,20,2,2 24,8,22,0,8 counters [0]
9 => parts 0,1,0,1,1 8,2,8,2,2 10,3,10,3,1 14,2,14,2,2 16,8,16,0,8 sections 0,1,0,1,1 8,2,8,2,2 10,3,10,3,1 14,2,14,2,2 16,8,16,0,8 counters [0]
25 => parts 0,1,0,1,1 8,2,8,2,2 10,3,10,0,1 10,2,10,2,2 16,8,12,0,8 sections 0,1,0,1,1 8,2,8,2,2 10,3,10,0,1 10,2,10,2,2 16,8,12,0,8 counters [0]
# A segment that opens or closes between breaks none.
@ 0 1,2,8 {"plan":{"page":16,"sections":[{"attrs":1,"parts":[[1,false]]},{"attrs":9,"parts":[[2,false]]},{"attrs":9,"parts":[[8,false]]}],"segments":[{"kind":"load"},{"kind":"other"}],"events":[["seg",0],["sec",0],["sec",1],...,["sec",2]]},"groups":[[{"kind":"prelude"}]]}
["seg",1],["endseg",1],["endseg",0] | ["endseg",0],["seg",1],["endseg",1] => parts 0,1,0,1,1 8,2,8,2,2 16,8,16,8,8 sections 0,1,0,1,1 8,2,8,2,2 16,8,16,8,8 counters [0]
# What is rounded up takes the file past its end; not where the row begins with zero-fill data.
@ 0 ...,0,0 {"plan":{"page":1,"base":["num",1],"sections":[{"parts":[[1,false]]},{"attrs":9,"parts":[[1,false]]},{"attrs":25,"align":64,"parts":[[1,false]]}],"events":[["sec",0],["sec",1],["sec",2]]},"groups":[[{"kind":"prelude"}]]}
18446744073709551552 => parts 0,18446744073709551552,0,18446744073709551552,1 64,0,18446744073709551615,0,1 64,0,18446744073709551615,0,64 sections 0,18446744073709551552,0,18446744073709551552,1 64,0,18446744073709551615,0,1 64,0,18446744073709551615,0,64 counters [1]
18446744073709551553 => refused AddressOverflow { place: Event(1) }
@ 0 18446744073709551615,0,0 {"plan":{"page":1,"base":["num",1],"sections":[{"parts":[[1,false]]},{"attrs":9,"parts":[[1,false]]},{"attrs":25,"align":64,"parts":[[1,false]]}],"events":[["sec",0],["sec",2],["sec",1]]},"groups":[[{"kind":"prelude"}]]}
 => parts 0,18446744073709551615,0,18446744073709551615,1 1,0,18446744073709551615,0,1 64,0,18446744073709551615,0,64 sections 0,18446744073709551615,0,18446744073709551615,1 1,0,18446744073709551615,0,1 64,0,18446744073709551615,0,64 counters [1]
# The greatest number is saved and given back; so is one before it, beside the last byte.
@ 0 ... {"plan":{"page":1,"base":["num",18446744073709551615],"sections":[{"attrs":25,"parts":[[1,false]]},{"attrs":1,"parts":[[1,false]]}],"events":[["sec",0],["sec",1]]},"groups":[[{"kind":"prelude"}]]}
0,0 => parts 18446744073709551615,0,0,0,1 18446744073709551615,0,0,0,1 sections 18446744073709551615,0,0,0,1 18446744073709551615,0,0,0,1 counters [18446744073709551615]
1,0 => refused AddressOverflow { place: Event(0) }
0,1 => refused AddressOverflow { place: Event(1) }
@ 0 1,1 {"plan":{"page":1,"base":["num",18446744073709551614],"sections":[{"attrs":25,"parts":[[1,false]]},{"attrs":1,"parts":[[1,false]]}],"events":[["sec",0],["sec",1]]},"groups":[[{"kind":"prelude"}]]}
 => parts 18446744073709551614,1,0,0,1 18446744073709551614,1,0,1,1 sections 18446744073709551614,1,0,0,1 18446744073709551614,1,0,1,1 counters [18446744073709551614]
# A load segment begins on the last page, behind zero-fill data on it; not behind other data.
@ 0 15,0 {"plan":{"page":16,"base":["num",18446744073709551600],"sections":[{"attrs":...,"parts":[[1,false]]},{"attrs":1,"parts":[[1,false]]}],"segments":[{"kind":"load"}],"events":[["sec",0],["seg",0],["sec",1],["endseg",0]]},"groups":[[{"kind":"prelude"}]]}
25 => parts 18446744073709551600,15,0,0,1 18446744073709551600,0,0,0,1 sections 18446744073709551600,15,0,0,1 18446744073709551600,0,0,0,1 counters [18446744073709551600]
17 => refused AddressOverflow { place: Event(1) }
"#;

/// Secondary sections, which have memory and bytes of the file where their primaries do, and are thread-local where they are
/// themselves.
const SECONDARIES: &str = r#"
# Of primaries with memory alone, of zero-fill thread-local ones, and of ones without memory.
@ 0 4,4,4 {"plan":{"page":16,"sections":[{"attrs":...,"parts":[[1,false]],"primary":0},{"attrs":1,"parts":[[1,false]]}],"segments":[{"kind":"load"}],"events":[["seg",0],["sec",0],["sec",1],["sec",2],["endseg",0]]},"groups":[[{"kind":"prelude"}]]}
17,"parts":[[1,false]]},{"attrs":1 | 17,"parts":[[1,false]]},{"attrs":0 => parts 0,4,0,0,1 4,4,0,0,1 8,4,0,4,1 sections 0,4,0,0,1 4,4,0,0,1 8,4,0,4,1 counters [0]
25,"parts":[[1,false]]},{"attrs":1 | 25,"parts":[[1,false]]},{"attrs":16 => parts 0,4,0,0,1 0,4,0,0,1 4,4,0,4,1 sections 0,4,0,0,1 0,4,0,0,1 4,4,0,4,1 counters [0]
25,"parts":[[1,false]]},{"attrs":25 | 25,"parts":[[1,false]]},{"attrs":24 => parts 0,4,0,0,1 4,4,0,0,1 0,4,0,4,1 sections 0,4,0,0,1 4,4,0,0,1 0,4,0,4,1 counters [0]
24,"parts":[[1,false]]},{"attrs":1 | 16,"parts":[[1,false]]},{"attrs":25 | 16,"parts":[[1,false]]},{"attrs":1 => parts 0,4,0,0,1 0,4,0,0,1 0,4,0,4,1 sections 0,4,0,0,1 0,4,0,0,1 0,4,0,4,1 counters [0]
0,"parts":[[1,false]]},{"attrs":25 | 0,"parts":[[1,false]]},{"attrs":17 => parts 0,4,0,4,1 0,4,4,4,1 0,4,8,4,1 sections 0,4,0,4,1 0,4,4,4,1 0,4,8,4,1 counters [0]
# Of primaries with bytes of the file: memory alone takes them too, and zero-fill thread-local data, behind which memory goes back.
1,"parts":[[1,false]]},{"attrs":0 | 1,"parts":[[1,false]]},{"attrs":16 | 1,"parts":[[1,false]]},{"attrs":17 => parts 0,4,0,4,1 4,4,4,4,1 8,4,8,4,1 sections 0,4,0,4,1 4,4,4,4,1 8,4,8,4,1 counters [0]
1,"parts":[[1,false]]},{"attrs":25 | 9,"parts":[[1,false]]},{"attrs":25 => parts 0,4,0,4,1 4,4,4,4,1 4,4,8,4,1 sections 0,4,0,4,1 4,4,4,4,1 4,4,8,4,1 counters [0]
# A location moves one with `top` alone, to and fro; else the file goes along, and not back.
@ 0 8,4,0 {"plan":{"page":16,"sections":[{"attrs":1,"parts":[[1,false]],"top":true},{"attrs":1,"parts":[[1,false]],"primary":0...},{"attrs":1,"parts":[[1,false]]}],"segments":[{"kind":"load"}],"events":[["seg",0],["sec",0],["addr",["num",2]],["sec",1],["sec",2],["endseg",0]]},"groups":[[{"kind":"prelude"}]]}
,"top":true => parts 0,8,0,8,1 2,4,8,4,1 6,0,12,0,1 sections 0,8,0,8,1 2,4,8,4,1 6,0,12,0,1 counters [0]
 | ,"counters":true => refused LocationBackwards { from: 8, to: 2 }
@ 0 8,4,0 {"plan":{"page":16,"sections":[{"attrs":1,"parts":[[1,false]]},{"attrs":1,"parts":[[1,false]],"primary":0,"top":true},{"attrs":1,"parts":[[1,false]]}],"segments":[{"kind":"load"}],"events":[["seg",0],["sec",0],["addr",["num",...]],["sec",1],["sec",2],["endseg",0]]},"groups":[[{"kind":"prelude"}]]}
32 => parts 0,8,0,8,1 32,4,8,4,1 36,0,12,0,1 sections 0,8,0,8,1 32,4,8,4,1 36,0,12,0,1 counters [0]
18446744073709551611 => parts 0,8,0,8,1 18446744073709551611,4,8,4,1 18446744073709551615,0,12,0,1 sections 0,8,0,8,1 18446744073709551611,4,8,4,1 18446744073709551615,0,12,0,1 counters [0]
18446744073709551612 => refused AddressOverflow { place: Event(3) }
# On a primary `top` says nothing.
@ 0 8,4 {"plan":{"page":16,"sections":[{"attrs":1,"parts":[[1,false]]},{"attrs":1,"parts":[[1,false]],"top":true}],"segments":[{"kind":"load"}],"events":[["seg",0],["sec",0],["addr",["num",...]],["sec",1],["endseg",0]]},"groups":[[{"kind":"prelude"}]]}
2 => refused LocationBackwards { from: 8, to: 2 }
32 => parts 0,8,0,8,1 32,4,32,4,1 sections 0,8,0,8,1 32,4,32,4,1 counters [0]
# The start of a section, and so a location of it, is that of its primary.
@ 0 8,4 {"plan":{"page":16,"base":["num",16],"sections":[{"attrs":17,"parts":[[1,false]]},{"attrs":1,"parts":[[1,false]],"primary":0}],"segments":[{"kind":"load"}],"events":[["seg",0],["sec",0],["locrel",["num",...],1],["sec",1],["endseg",0]]},"groups":[[{"kind":"prelude"}],[{"kind":"script"}]]}
16 => parts 16,8,0,0,1 16,4,0,0,1 sections 16,8,0,0,1 16,4,0,0,1 counters [16, 16]
15 => refused LocationBackwards { from: 16, to: 15 }
"#;

/// Numbers at the end of all: cursors, bounds, headers; and refusals at a first and at a later place.
const ENDS: &str = r#"
# The file alone goes up to its end, by sections without memory, and past it; and where it is rounded up.
@ 0 9223372036854775808,... {"plan":{"page":1,"sections":[{"parts":[[1,false]]},{"parts":[[1,false]]}],"events":[["sec",0],["sec",1]]},"groups":[[{"kind":"prelude"}]]}
9223372036854775807 => parts 0,9223372036854775808,0,9223372036854775808,1 0,9223372036854775807,9223372036854775808,9223372036854775807,1 sections 0,9223372036854775808,0,9223372036854775808,1 0,9223372036854775807,9223372036854775808,9223372036854775807,1 counters [0]
9223372036854775808 => refused AddressOverflow { place: Event(1) }
@ 0 18446744073709551615,0 {"plan":{"page":1,"sections":[{"parts":[[1,false]]},{"attrs":...,"align":2,"parts":[[1,false]]}],"events":[["sec",0],["sec",1]]},"groups":[[{"kind":"prelude"}]]}
16 | 17 => parts 0,18446744073709551615,0,18446744073709551615,1 0,0,18446744073709551615,0,2 sections 0,18446744073709551615,0,18446744073709551615,1 0,0,18446744073709551615,0,2 counters [0]
0 | 1 => refused AddressOverflow { place: Event(1) }
# A location that waits, and the start that it is held against.
@ 0 0,0 {"plan":{"page":1,"base":["num",18446744073709551615],"sections":[{"attrs":1,"parts":[[1,false]]},{"attrs":1,"parts":[[1,false]]}],"events":[["sec",0],["locrel",["num",...],0],["sec",1]]},"groups":[[{"kind":"prelude"}],[{"kind":"script"}]]}
18446744073709551615 => parts 18446744073709551615,0,0,0,1 18446744073709551615,0,0,0,1 sections 18446744073709551615,0,0,0,1 18446744073709551615,0,0,0,1 counters [18446744073709551615, 18446744073709551615]
18446744073709551614 => refused LocationBackwards { from: 18446744073709551615, to: 18446744073709551614 }
# A location in a region that begins at the last number, whose end is only compared.
@ 0 0 {"plan":{"page":16,"sections":[{"attrs":1,"region":"r","parts":[[1,false]]}],"segments":[{"kind":"load"}],"regions":[{"name":"r","origin":["num",18446744073709551615],"length":["num",18446744073709551615]}],"events":[["seg",0],["addr",["num",...]],["sec",0],["endseg",0]]},"groups":[[{"kind":"prelude"}]]}
18446744073709551615 => parts 18446744073709551615,0,0,0,1 sections 18446744073709551615,0,0,0,1 counters [0]
18446744073709551614 => refused OutsideRegion { event: 2, address: 18446744073709551614 }
0 => refused OutsideRegion { event: 2, address: 0 }
# As many bytes of headers as there are numbers.
@ 18446744073709551615 8 {"plan":{"page":4096,"sections":[{"attrs":1,"parts":[[1,false]]}],"segments":[{"kind":"load"}],"events":[["seg",0],["sec",0],["endseg",0]],"base":...},"groups":[[{"kind":"prelude"}]]}
["num",18446744073709551615],"custom_base":true | ["headers"],"custom_base":true => parts 0,8,0,8,1 sections 0,8,0,8,1 counters [18446744073709551615]
["num",18446744073709551614],"custom_base":true => refused BaseTooLow { base: 18446744073709551614, headers: 18446744073709551615 }
["num",18446744073709551614],"phdrs_headers":true => refused AddressOverflow { place: Event(0) }
["num",4094],"phdrs_headers":true => parts 4096,8,0,8,1 sections 4096,8,0,8,1 counters [4094]
["add",["headers"],["num",1]] => refused Expression { place: Base, cause: Overflow }
["div",["headers"],["sub",["headers"],["headers"]]] => refused Expression { place: Base, cause: DivideByZero }
# Locations that go back, at the first section and at a later one, and behind all; expressions of the first event and of the last.
@ 0 8,4 {"plan":{"page":16,"base":["num",64],"sections":[{"attrs":1,"parts":[[1,false]]},{"attrs":1,"parts":[[1,false]]}],"events":[...]},"groups":[[{"kind":"prelude"}],[{"kind":"script"}]]}
["addr",["num",63]],["sec",0],["sec",1] => refused LocationBackwards { from: 64, to: 63 }
["sec",0],["addr",["num",80]],["sec",1],["locrel",["num",79],1] => refused LocationBackwards { from: 80, to: 79 }
["sec",0],["locrel",["num",63],0],["addr",["div",["num",1],["num",0]]],["sec",1] => refused LocationBackwards { from: 64, to: 63 }
["loc",["div",["num",1],["num",0]]],["sec",0],["sec",1] => refused Expression { place: Event(0), cause: DivideByZero }
["sec",0],["sec",1],["locrel",["sub",["addr",0],["addr",1]],0] => refused Expression { place: Event(2), cause: Overflow }
["sec",1],["addr",["add",["addr",1],["sizeof",1]]],["sec",0],["addr",["addr",0]] => parts 68,8,4,8,1 64,4,0,4,1 sections 68,8,4,8,1 64,4,0,4,1 counters [64]
"#;

/// As many regions as there may be: a section in the first, two in the last, which has room for 2 bytes.
const MOST_REGIONS: &str = r#"
@ 0 ... {"plan":{"page":16,"sections":[{"attrs":1,"region":"00","parts":[[1,false]]},{"attrs":1,"region":"63","parts":[[1,false]]},{"attrs":1,"region":"63","parts":[[1,false]]}],"segments":[{"kind":"load"}],"events":[["seg",0],["sec",0],["sec",1],["sec",2],["endseg",0]],"regions":[{"name":"00","origin":["num",16],"length":["num",2]},{"name":"01","origin":["num",32],"length":["num",2]},{"name":"02","origin":["num",48],"length":["num",2]},{"name":"03","origin":["num",64],"length":["num",2]},{"name":"04","origin":["num",80],"length":["num",2]},{"name":"05","origin":["num",96],"length":["num",2]},{"name":"06","origin":["num",112],"length":["num",2]},{"name":"07","origin":["num",128],"length":["num",2]},{"name":"08","origin":["num",144],"length":["num",2]},{"name":"09","origin":["num",160],"length":["num",2]},{"name":"10","origin":["num",176],"length":["num",2]},{"name":"11","origin":["num",192],"length":["num",2]},{"name":"12","origin":["num",208],"length":["num",2]},{"name":"13","origin":["num",224],"length":["num",2]},{"name":"14","origin":["num",240],"length":["num",2]},{"name":"15","origin":["num",256],"length":["num",2]},{"name":"16","origin":["num",272],"length":["num",2]},{"name":"17","origin":["num",288],"length":["num",2]},{"name":"18","origin":["num",304],"length":["num",2]},{"name":"19","origin":["num",320],"length":["num",2]},{"name":"20","origin":["num",336],"length":["num",2]},{"name":"21","origin":["num",352],"length":["num",2]},{"name":"22","origin":["num",368],"length":["num",2]},{"name":"23","origin":["num",384],"length":["num",2]},{"name":"24","origin":["num",400],"length":["num",2]},{"name":"25","origin":["num",416],"length":["num",2]},{"name":"26","origin":["num",432],"length":["num",2]},{"name":"27","origin":["num",448],"length":["num",2]},{"name":"28","origin":["num",464],"length":["num",2]},{"name":"29","origin":["num",480],"length":["num",2]},{"name":"30","origin":["num",496],"length":["num",2]},{"name":"31","origin":["num",512],"length":["num",2]},{"name":"32","origin":["num",528],"length":["num",2]},{"name":"33","origin":["num",544],"length":["num",2]},{"name":"34","origin":["num",560],"length":["num",2]},{"name":"35","origin":["num",576],"length":["num",2]},{"name":"36","origin":["num",592],"length":["num",2]},{"name":"37","origin":["num",608],"length":["num",2]},{"name":"38","origin":["num",624],"length":["num",2]},{"name":"39","origin":["num",640],"length":["num",2]},{"name":"40","origin":["num",656],"length":["num",2]},{"name":"41","origin":["num",672],"length":["num",2]},{"name":"42","origin":["num",688],"length":["num",2]},{"name":"43","origin":["num",704],"length":["num",2]},{"name":"44","origin":["num",720],"length":["num",2]},{"name":"45","origin":["num",736],"length":["num",2]},{"name":"46","origin":["num",752],"length":["num",2]},{"name":"47","origin":["num",768],"length":["num",2]},{"name":"48","origin":["num",784],"length":["num",2]},{"name":"49","origin":["num",800],"length":["num",2]},{"name":"50","origin":["num",816],"length":["num",2]},{"name":"51","origin":["num",832],"length":["num",2]},{"name":"52","origin":["num",848],"length":["num",2]},{"name":"53","origin":["num",864],"length":["num",2]},{"name":"54","origin":["num",880],"length":["num",2]},{"name":"55","origin":["num",896],"length":["num",2]},{"name":"56","origin":["num",912],"length":["num",2]},{"name":"57","origin":["num",928],"length":["num",2]},{"name":"58","origin":["num",944],"length":["num",2]},{"name":"59","origin":["num",960],"length":["num",2]},{"name":"60","origin":["num",976],"length":["num",2]},{"name":"61","origin":["num",992],"length":["num",2]},{"name":"62","origin":["num",1008],"length":["num",2]},{"name":"63","origin":["num",1024],"length":["num",2]}]},"groups":[[{"kind":"prelude"}]]}
2,1,1 => parts 16,2,0,2,1 1024,1,2,1,1 1025,1,3,1,1 sections 16,2,0,2,1 1024,1,2,1,1 1025,1,3,1,1 counters [0]
2,1,2 => refused RegionOverflow { region: RegionId { number: 63 }, by: 1 }
3,1,1 => refused RegionOverflow { region: RegionId { number: 0 }, by: 1 }
"#;

/// The place of a symbol that a word tells.
fn position_of(word: &str) -> Option<SymbolPosition> {
    let (part, offset) = word.split_once(':')?;
    Some(SymbolPosition {
        part: PartId::from_u32(part.parse::<u32>().ok()?),
        offset: offset.parse::<u64>().ok()?,
    })
}

/// The numbers that a word tells, with commas between.
pub(crate) fn numbers_of(alloc: Global, word: &str) -> Result<Vec<u64>, AllocError> {
    let mut numbers = Vec::new(alloc);
    for digits in word.split(',') {
        numbers.push(digits.parse::<u64>().unwrap_or(0))?;
    }
    Ok(numbers)
}

/// What is given beside the link.
#[derive(Clone, Copy)]
struct Given<'a> {
    headers: u64,
    sizes: &'a [u64],
    positions: &'a SymbolPositions,
}

/// Adds where all stands.
fn add_all(line: &mut String, placed: &Placed) -> Result<(), AllocError> {
    add_records(line, "parts", placed.parts.as_slice())?;
    add_records(line, "sections", placed.sections.as_slice())?;
    add(line, "counters", &placed.counters.as_slice())
}

/// Adds where all stands, or the refusal.
fn add_walked(
    alloc: Global,
    line: &mut String,
    link: &LinkInput,
    given: Given<'_>,
) -> Result<(), AllocError>
    requires { IsWellFormed link.now }
{
    if given.sizes.len() != link.plan.sections.parts().len() {
        return line.push_str("other parts");
    }
    match compute_layout_sections(
        alloc,
        link,
        given.sizes,
        given.positions,
        given.headers,
        &Small64,
    ) {
        Ok(placed) => add_all(line, &placed),
        Err(error) => add(line, "refused", &error),
    }
}

/// The same of a link that is well formed.
fn add_checked(
    alloc: Global,
    line: &mut String,
    link: &LinkInput,
    given: Given<'_>,
) -> Result<(), AllocError> {
    match check_link(link) {
        Ok(()) => add_walked(alloc, line, link, given),
        Err(fault) => add(line, "fault", &fault),
    }
}

/// The same of a link that there is.
fn add_found(
    alloc: Global,
    line: &mut String,
    link: &Result<LinkInput, InputError>,
    given: Given<'_>,
) -> Result<(), AllocError> {
    match link {
        Ok(link) => add_checked(alloc, line, link, given),
        Err(error) => write!(line, "no link: {error}"),
    }
}

/// The same of the link that a text stands for.
fn add_read(
    alloc: Global,
    line: &mut String,
    text: &str,
    given: Given<'_>,
) -> Result<(), AllocError> {
    let link = read_link(alloc, text.as_bytes());
    add_found(alloc, line, &link, given)
}

/// Adds where all stands by what a row tells.
pub fn add_walk(alloc: Global, line: &mut String, row: &str) -> Result<(), AllocError> {
    let (told, text) = row.split_once(" {").unwrap_or((row, ""));
    let mut words = told.split_whitespace();
    let headers = words.next().unwrap_or("").parse::<u64>().unwrap_or(0);
    let sizes = numbers_of(alloc, words.next().unwrap_or(""))?;
    let mut positions = Vec::new(alloc);
    for word in words {
        positions.push(position_of(word))?;
    }
    let positions = SymbolPositions::new(List::from_vec(positions));
    let text = format!(in alloc; "{{{text}")?;
    let given = Given {
        headers,
        sizes: &sizes,
        positions: &positions,
    };
    add_read(alloc, line, text.as_str(), given)
}

#[test]
fn locations_move_what_comes_next(rt: HostRuntime) -> Result<(), Fail> {
    expect_rows(
        &rt,
        rt.alloc(),
        Asked::Placement(OfPlacement::Walked),
        MOVES,
    )
}

#[test]
fn sections_have_load_addresses(rt: HostRuntime) -> Result<(), Fail> {
    expect_rows(
        &rt,
        rt.alloc(),
        Asked::Placement(OfPlacement::Walked),
        LOADS,
    )
}

#[test]
fn regions_hold_their_sections(rt: HostRuntime) -> Result<(), Fail> {
    expect_rows(
        &rt,
        rt.alloc(),
        Asked::Placement(OfPlacement::Walked),
        REGIONS,
    )
}

#[test]
fn sections_stand_behind_one_another(rt: HostRuntime) -> Result<(), Fail> {
    expect_rows(
        &rt,
        rt.alloc(),
        Asked::Placement(OfPlacement::Walked),
        WALKS,
    )
}

#[test]
fn load_segments_open_nested_and_across(rt: HostRuntime) -> Result<(), Fail> {
    expect_rows(
        &rt,
        rt.alloc(),
        Asked::Placement(OfPlacement::Walked),
        OPENINGS,
    )
}

#[test]
fn thread_local_rows_are_rounded_up_anew(rt: HostRuntime) -> Result<(), Fail> {
    expect_rows(&rt, rt.alloc(), Asked::Placement(OfPlacement::Walked), RUNS)
}

#[test]
fn secondaries_go_by_their_primaries(rt: HostRuntime) -> Result<(), Fail> {
    expect_rows(
        &rt,
        rt.alloc(),
        Asked::Placement(OfPlacement::Walked),
        SECONDARIES,
    )
}

#[test]
fn numbers_go_to_their_end_and_not_past_it(rt: HostRuntime) -> Result<(), Fail> {
    expect_rows(&rt, rt.alloc(), Asked::Placement(OfPlacement::Walked), ENDS)
}

#[test]
fn the_last_region_holds_its_sections(rt: HostRuntime) -> Result<(), Fail> {
    expect_rows(
        &rt,
        rt.alloc(),
        Asked::Placement(OfPlacement::Walked),
        MOST_REGIONS,
    )
}
