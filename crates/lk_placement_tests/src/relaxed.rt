//! Relaxation by its own calls: where input sections and symbols stand, what a first pass finds, and what all passes delete.
//!
//! A row's answer tells, while nothing is deleted, the places of the input sections and then of the symbols, each as `PART:OFFSET`
//! or `-`; behind `found` what a pass finds in each section that can be looked at; and behind the last pass the sizes of all input
//! sections, what is deleted, and the records of the parts. A section is `FILE/INDEX`, with the file's number over all groups, and
//! behind it stand its ranges as `START+LENGTH`, of a pass also the margin as `short BYTES`.

ghost use Rattle.std.specs.Prelude.{◌≡◌, [], None};
ghost use Rattle.lk_live.specs.Reach.{AreLive};
ghost use Rattle.lk_link.specs.TableSizes.{TableSizes};
ghost use Rattle.lk_link.specs.WellFormed.{IsWellFormed};
ghost use Rattle.lk_sizes.specs.Contents.{size_refusal};
ghost use Rattle.lk_sizes.specs.Sizing.{AreFilled};
ghost use Rattle.lk_relax.specs.Relaxed.{ArePlacedFirst, own_filling, relaxing};

use crate::rows::{Asked, expect_rows, expect_text};
use lk_check::check_link;
use lk_deltas::{
    RelaxDeltaMap, SectionRelaxDeltas, opt_input_to_output, split_ordered_symbol_ranges,
};
use lk_expressions::{OutputRecordLayout, SymbolPositions};
use lk_input::read_link;
use lk_link::{FileId, LinkInput, PartId, PlanPart, Platform, Section, Small64, SymbolId};
use lk_live::{Live, traverse_alone};
use lk_place::{PlaceError, Placed};
use lk_relax::{
    Relaxation, Relaxed, StandingLink, compute_input_section_positions,
    perform_iterative_relaxation, place_first, relaxation_scan_pass,
};
use lk_sizes::{PartOwners, SizeError, plain_owners};
use lk_test_rows::add;
use std::alloc::{AllocError, Global};
use std::test::Fail;

/// What passes delete, and where all is placed then.
const RELAXED: &str = r#"
# Nobody asks for it; and bytes go where the limit is no less than the distance.
@ {"options":{"relax":...},"plan":{"page":1,"base":["num",4096],"sections":[{"attrs":5,"parts":[[1,false]]},{"attrs":1,"parts":[[1,false]]}],"segments":[{"kind":"load"}],"events":[["seg",0],["sec",0],["sec",1],["endseg",0]]},"groups":[[{"kind":"prelude"}],[{"kind":"object","sections":[{"slot":"must","part":0,"size":16,"attrs":4,"relax":[[4,0,12,4]]},{"slot":"must","part":1,"size":4}],"symbols":[{"at":["sec",1,0]},{"at":["sec",0,4]},{"at":["sec",0,6]},{"at":["sec",0,8]}]}]]}
true => sections 0:0 1:0 symbols 1:0 0:4 0:6 0:8 found 1/0 4+4 sizes [12, 4] deleted 1/0 4+4 parts 4096,12,0,12,1 4108,4,12,4,1
false => sections 0:0 1:0 symbols 1:0 0:4 0:6 0:8 found 1/0 4+4 sizes [16, 4] deleted parts 4096,16,0,16,1 4112,4,16,4,1
@ {"options":{"relax":true},"plan":{"page":1,"base":["num",4096],"sections":[{"attrs":5,"parts":[[1,false]]},{"attrs":1,"parts":[[1,false]]}],"segments":[{"kind":"load"}],"events":[["seg",0],["sec",0],["sec",1],["endseg",0]]},"groups":[[{"kind":"prelude"}],[{"kind":"object","sections":[{"slot":"must","part":0,"size":16,"attrs":4,"relax":[...]},{"slot":"must","part":1,"size":4}],"symbols":[{"at":["sec",1,0]}]}]]}
 => sections 0:0 1:0 symbols 1:0 found sizes [16, 4] deleted parts 4096,16,0,16,1 4112,4,16,4,1
[4,0,11,4] => sections 0:0 1:0 symbols 1:0 found 1/0 short 1 sizes [16, 4] deleted parts 4096,16,0,16,1 4112,4,16,4,1
[4,0,100,4] => sections 0:0 1:0 symbols 1:0 found 1/0 4+4 sizes [12, 4] deleted 1/0 4+4 parts 4096,12,0,12,1 4108,4,12,4,1
[4,0,5,4] => sections 0:0 1:0 symbols 1:0 found 1/0 short 7 sizes [16, 4] deleted parts 4096,16,0,16,1 4112,4,16,4,1
[4,0,0,4] => sections 0:0 1:0 symbols 1:0 found 1/0 short 12 sizes [16, 4] deleted parts 4096,16,0,16,1 4112,4,16,4,1
[4,0,18446744073709551615,4] => sections 0:0 1:0 symbols 1:0 found 1/0 4+4 sizes [12, 4] deleted 1/0 4+4 parts 4096,12,0,12,1 4108,4,12,4,1
# Candidates that touch, at the start and at the end; and a section that goes whole, in three pieces, and its part with it.
[0,0,99,4],[4,0,99,8] => sections 0:0 1:0 symbols 1:0 found 1/0 0+4 4+8 sizes [4, 4] deleted 1/0 0+4 4+8 parts 4096,4,0,4,1 4100,4,4,4,1
[12,0,99,4] => sections 0:0 1:0 symbols 1:0 found 1/0 12+4 sizes [12, 4] deleted 1/0 12+4 parts 4096,12,0,12,1 4108,4,12,4,1
[0,0,99,8],[8,0,99,4],[12,0,99,4] => sections 0:0 1:0 symbols 1:0 found 1/0 0+8 8+4 12+4 sizes [0, 4] deleted 1/0 0+8 8+4 12+4 parts 4096,0,0,0,1 4096,4,0,4,1
# A chain in which each pass lets a further candidate go, and one that is longer than there are passes.
@ {"options":{"relax":true},"plan":{"page":1,"sections":[{"attrs":5,"parts":[[1,false]]}],"segments":[{"kind":"load"}],"events":[["seg",0],["sec",0],["endseg",0]]},"groups":[[{"kind":"prelude"}],[{"kind":"object",...}]]}
"sections":[{"slot":"must","size":20,"attrs":4,"relax":[[0,0,15,4],[4,0,15,4],[8,0,12,2]]}],"symbols":[{"at":["sec",0,20]}] => sections 0:0 symbols 0:20 found 1/0 8+2 short 1 sizes [10] deleted 1/0 0+4 4+4 8+2 parts 0,10,0,10,1
"sections":[{"slot":"must","size":20,"attrs":4,"relax":[[0,0,14,1],[1,0,14,1],[2,0,14,1],[3,0,14,1],[4,0,14,1],[5,0,14,1],[6,0,14,1]]}],"symbols":[{"at":["sec",0,20]}] => sections 0:0 symbols 0:20 found 1/0 6+1 short 1 sizes [15] deleted 1/0 2+1 3+1 4+1 5+1 6+1 parts 0,15,0,15,1
# A limit of 0, at the place itself.
"sections":[{"slot":"must","size":8,"attrs":4,"relax":[[2,0,0,4]]}],"symbols":[{"at":["sec",0,2]}] => sections 0:0 symbols 0:2 found 1/0 2+4 sizes [4] deleted 1/0 2+4 parts 0,4,0,4,1
# A section falls out of the list by a margin above the fall, though its symbol ends near enough.
"sections":[{"slot":"must","size":4,"attrs":4,"relax":[[0,0,7,1]]},{"slot":"must","size":8,"attrs":4,"relax":[[0,0,6,1],[4,0,5,4]]},{"slot":"must","size":1}],"symbols":[{"at":["sec",2,0]}] => sections 0:0 0:4 0:12 symbols 0:12 found 1/0 short 5 1/1 4+4 short 2 sizes [4, 3, 1] deleted 1/1 0+1 4+4 parts 0,8,0,8,1
# What falls in one section brings another nearer to a number: a margin below the fall, at it, and above it.
"sections":[{"slot":"must","size":8,"attrs":4,"relax":[[0,0,0,4]]},{"slot":"must","size":8,"attrs":4,"relax":[[2,0,8,2]]}],"symbols":[{"at":["abs",0]}] => sections 0:0 0:8 symbols - found 1/0 0+4 1/1 short 2 sizes [4, 6] deleted 1/0 0+4 1/1 2+2 parts 0,10,0,10,1
"sections":[{"slot":"must","size":8,"attrs":4,"relax":[[0,0,0,4]]},{"slot":"must","size":8,"attrs":4,"relax":[[2,0,6,2]]}],"symbols":[{"at":["abs",0]}] => sections 0:0 0:8 symbols - found 1/0 0+4 1/1 short 4 sizes [4, 6] deleted 1/0 0+4 1/1 2+2 parts 0,10,0,10,1
"sections":[{"slot":"must","size":8,"attrs":4,"relax":[[0,0,0,4]]},{"slot":"must","size":8,"attrs":4,"relax":[[2,0,5,2]]}],"symbols":[{"at":["abs",0]}] => sections 0:0 0:8 symbols - found 1/0 0+4 1/1 short 5 sizes [4, 8] deleted 1/0 0+4 parts 0,12,0,12,1
# One falls out behind the first pass, though it would be near enough behind the second.
"sections":[{"slot":"must","size":8,"attrs":4,"relax":[[0,0,0,4]]},{"slot":"must","size":8,"attrs":4,"relax":[[0,0,4,1]]},{"slot":"must","size":8,"attrs":4,"relax":[[0,0,11,1]]}],"symbols":[{"at":["abs",0]}] => sections 0:0 0:8 0:16 symbols - found 1/0 0+4 1/1 short 4 1/2 short 5 sizes [4, 7, 8] deleted 1/0 0+4 1/1 0+1 parts 0,19,0,19,1
# A later pass deletes of a section between two of which something is deleted, and more of the latter.
"sections":[{"slot":"must","size":4,"attrs":4,"relax":[[0,0,999,1]]},{"slot":"must","size":8,"attrs":4,"relax":[[0,0,15,2]]},{"slot":"must","size":8,"attrs":4,"relax":[[0,0,7,1],[2,0,999,1]]},{"slot":"must","size":2}],"symbols":[{"at":["sec",3,0]}] => sections 0:0 0:4 0:12 0:20 symbols 0:20 found 1/0 0+1 1/1 short 1 1/2 2+1 short 1 sizes [3, 6, 6, 2] deleted 1/0 0+1 1/1 0+2 1/2 0+1 2+1 parts 0,17,0,17,1
# What is 52 away in the pass is 56 away behind it.
@ {"options":{"relax":true},"plan":{"page":4096,"base":["num",4096],"sections":[{"attrs":5,"parts":[[1,false]]},{"attrs":5,"parts":[[64,false]]}],"segments":[{"kind":"load"}],"events":[["seg",0],["sec",0],["sec",1],["endseg",0]]},"groups":[[{"kind":"prelude"}],[{"kind":"object","symbols":[{"at":["sec",1,0]},{"at":["sec",2,0]}],"sections":[{"slot":"must","part":0,"attrs":4,"size":8,"relax":[[0,0,100,4]]},{"slot":"must","part":0,"attrs":4,"size":8,"relax":[[4,1,...,4]]},{"slot":"must","part":1,"attrs":4,"size":16}]}]]}
51 => sections 0:0 0:8 1:0 symbols 0:8 1:0 found 1/0 0+4 1/1 short 1 sizes [4, 8, 16] deleted 1/0 0+4 parts 4096,12,0,12,1 4160,64,64,64,64
52 => sections 0:0 0:8 1:0 symbols 0:8 1:0 found 1/0 0+4 1/1 4+4 sizes [4, 4, 16] deleted 1/0 0+4 1/1 4+4 parts 4096,8,0,8,1 4160,64,64,64,64
# A pass by which capacities fall by nothing deletes, and the placement stays as it is: a location still goes by the first place.
@ ...
{"plan":{"page":16,"sections":[{"attrs":5,"parts":[[8,true],[4,false]]},{"attrs":1,"parts":[[1,false]]}],"segments":[{"kind":"load"}],"events":[["seg",0],["sec",0],["addr",["add",["sym",0],["num",56]]],["sec",1],["endseg",0]]},"groups":[[{"kind":"prelude"}],[{"kind":"object","sections":[{"slot":"must","part":1,"size":11,"attrs":4,"relax":[[4,0,99,2]]},{"slot":"must","part":2,"size":1}],"symbols":[{"at":["sec",0,8]}]}]],"options":{"relax":true}} => sections 1:0 2:0 symbols 1:8 found 1/0 4+2 sizes [9, 1] deleted 1/0 4+2 parts 0,0,0,0,8 0,12,0,12,4 64,1,64,1,1
"#;

/// What counts as near by what stands for a symbol, what is shortened, and placements that are refused behind a pass.
const TARGETS: &str = r#"
# A symbol at a number or in a section that has a place: the candidate's own one too, also in the bytes of the candidate.
@ {"options":{"relax":true,"entry":0},"plan":{"page":1,"base":["num",16],"sections":[{"attrs":5,"parts":[[1,false]]},{"attrs":1,"parts":[[1,false]]}],"segments":[{"kind":"load"}],"events":[["seg",0],["sec",0],["sec",1],["endseg",0]]},"groups":[[{"kind":"prelude"}],[{"kind":"object","sections":[{"slot":"must","part":0,"size":8,"attrs":4,"relax":[[2,0,99,4]]},{"slot":"must","part":1,"size":4},{"slot":"mustdebug","part":1,"size":4},{"slot":"must","part":1,"size":4,"sorted":true,"name":"s"},{"slot":"unloaded","part":1,"size":4},{"slot":"merge","part":1,"data":""}],"symbols":[{...}]}]]}
"at":["abs",7] => sections 0:0 1:0 - - - - symbols - found 1/0 2+4 sizes [4, 4, 4, 4, 4, 0] deleted 1/0 2+4 parts 16,4,0,4,1 20,12,4,12,1
"at":["sec",1,4] => sections 0:0 1:0 - - - - symbols 1:4 found 1/0 2+4 sizes [4, 4, 4, 4, 4, 0] deleted 1/0 2+4 parts 16,4,0,4,1 20,12,4,12,1
"at":["sec",0,0] => sections 0:0 1:0 - - - - symbols 0:0 found 1/0 2+4 sizes [4, 4, 4, 4, 4, 0] deleted 1/0 2+4 parts 16,4,0,4,1 20,12,4,12,1
"at":["sec",0,4] => sections 0:0 1:0 - - - - symbols 0:4 found 1/0 2+4 sizes [4, 4, 4, 4, 4, 0] deleted 1/0 2+4 parts 16,4,0,4,1 20,12,4,12,1
"at":["sec",0,8] => sections 0:0 1:0 - - - - symbols 0:8 found 1/0 2+4 sizes [4, 4, 4, 4, 4, 0] deleted 1/0 2+4 parts 16,4,0,4,1 20,12,4,12,1
# None that another may take the place of, or in a section without one: debug data, sorted, merged; nor a common, an undefined one.
"at":["sec",1,4],"flags":32 => sections 0:0 1:0 - - - - symbols 1:4 found sizes [8, 4, 4, 4, 4, 0] deleted parts 16,8,0,8,1 24,12,8,12,1
"at":["abs",7],"flags":32 | "at":["sec",2,0] | "at":["sec",3,0] | "at":["sec",5,0] | "at":["undef"],"weak":true => sections 0:0 1:0 - - - - symbols - found sizes [8, 4, 4, 4, 4, 0] deleted parts 16,8,0,8,1 24,12,8,12,1
"at":["common",1,4] => sections 0:0 1:0 - - - - symbols - found sizes [8, 4, 4, 4, 4, 0] deleted parts 16,8,0,8,1 24,16,8,16,1
# Nor one in a section that nothing keeps.
@ {"options":{"relax":true},"plan":{"page":1,"sections":[{"attrs":5,"parts":[[1,false]]}],"segments":[{"kind":"load"}],"events":[["seg",0],["sec",0],["endseg",0]]},"groups":[[{"kind":"prelude"}],[{"kind":"object",...}]]}
"sections":[{"slot":"must","size":8,"attrs":4,"relax":[[0,0,99,1]]},{"slot":"unloaded","size":1}],"symbols":[{"at":["sec",1,0]}] => sections 0:0 - symbols - found sizes [8, 1] deleted parts 0,8,0,8,1
# Only code is shortened, neither debug data nor sorted sections, nor what nothing keeps.
"sections":[{"slot":"must","size":4,"relax":[[0,0,99,4]]},{"slot":"mustdebug","size":4,"attrs":4,"relax":[[0,0,99,4]]},{"slot":"must","size":4,"attrs":4,"sorted":true,"name":"s","relax":[[0,0,99,4]]},{"slot":"unloaded","size":4,"attrs":4,"relax":[[0,0,99,4]]},{"slot":"must","size":4,"attrs":4,"relax":[[0,0,99,4]]}],"symbols":[{"at":["sec",0,0]}] => sections 0:0 - - - 0:8 symbols 0:0 found 1/0 0+4 1/4 0+4 sizes [4, 4, 4, 4, 0] deleted 1/4 0+4 parts 0,12,0,12,1
# Another symbol's definition counts, here that of another file.
@ {"options":{"relax":true},"plan":{"page":1,"sections":[{"attrs":5,"parts":[[1,false]]}],"segments":[{"kind":"load"}],"events":[["seg",0],["sec",0],["endseg",0]]},"groups":[[{"kind":"prelude"}],[{"kind":"object","sections":[{"slot":"must","size":8,"attrs":4,"relax":[[4,0,...,1]]}],"symbols":[{"at":["undef"],"def":1}]}],[{"kind":"object","sections":[{"slot":"must","size":8}],"symbols":[{"at":["sec",0,2]}]}]]}
5 => sections 0:0 0:8 symbols - 0:10 found 1/0 short 1 sizes [8, 8] deleted parts 0,16,0,16,1
6 => sections 0:0 0:8 symbols - 0:10 found 1/0 4+1 sizes [7, 8] deleted 1/0 4+1 parts 0,15,0,15,1
# A sorted section behind code goes along with what is deleted.
@ {"options":{"relax":true},"plan":{"page":1,"sections":[{"attrs":5,"parts":[[1,false]]}],"segments":[{"kind":"load"}],"events":[["seg",0],["sec",0],["endseg",0]]},"groups":[[{"kind":"prelude"}],[{"kind":"object",...}]]}
"sections":[{"slot":"must","size":4,"sorted":true,"name":"s"},{"slot":"must","size":8,"attrs":4,"relax":[[0,0,99,4]]},{"slot":"must","size":2}],"symbols":[{"at":["sec",2,0]}] => sections - 0:0 0:8 symbols 0:8 found 1/1 0+4 sizes [4, 4, 2] deleted 1/1 0+4 parts 0,10,0,10,1
# In output that is linked again places are counted from 0 in each section.
@ {"options":{"relax":true,"output":"partial"},"plan":{"page":1,"sections":[{"attrs":5,"parts":[[1,false]]},{"attrs":1,"parts":[[1,false]]}],"events":[["sec",0],["sec",1]]},"groups":[[{"kind":"prelude"}],[{"kind":"object","sections":[{"slot":"must","part":0,"size":8,"attrs":4,"relax":[[6,0,...,1]]},{"slot":"must","part":1,"size":4}],"symbols":[{"at":["sec",1,2]}]}]]}
3 => sections 0:0 1:0 symbols 1:2 found 1/0 short 1 sizes [8, 4] deleted parts 0,8,0,8,1 0,4,8,4,1
4 => sections 0:0 1:0 symbols 1:2 found 1/0 6+1 sizes [7, 4] deleted 1/0 6+1 parts 0,7,0,7,1 0,4,7,4,1
# A part that loses all its bytes: the next part of its section is aligned by itself.
@ {"options":{"relax":true},"plan":{"page":1,"base":["num",2],"sections":[{"attrs":5,"parts":[[16,false],[2,false]]}],"segments":[{"kind":"load"}],"events":[["seg",0],["sec",0],["endseg",0]]},"groups":[[{"kind":"prelude"}],[{"kind":"object","sections":[{"slot":"must","part":0,"size":4,"attrs":4,"relax":[[0,0,...,4]]},{"slot":"must","part":1,"size":2}],"symbols":[{"at":["sec",1,0]}]}]]}
99 => sections 0:0 1:0 symbols 1:0 found 1/0 0+4 sizes [0, 2] deleted 1/0 0+4 parts 2,0,0,0,16 2,2,0,2,2
3 => sections 0:0 1:0 symbols 1:0 found 1/0 short 13 sizes [4, 2] deleted parts 16,16,0,16,16 32,2,16,2,2
# A later placement is refused where the first one was not: a location goes back, an expression comes to nothing, a region ends before a location in it.
@ {"options":{"relax":...},"plan":{"page":16,"sections":[{"attrs":5,"parts":[[1,false]]},{"attrs":1,"parts":[[1,false]]}],"segments":[{"kind":"load"}],"events":[["seg",0],["sec",0],["addr",["sub",["mul",["num",2],["sym",0]],["num",8]]],["sec",1],["endseg",0]]},"groups":[[{"kind":"prelude"}],[{"kind":"object","sections":[{"slot":"must","part":0,"size":8,"attrs":4,"relax":[[0,0,999,4]]},{"slot":"must","part":1,"size":1}],"symbols":[{"at":["sec",0,8]}]}]]}
true => sections 0:0 1:0 symbols 0:8 found 1/0 0+4 refused LocationBackwards { from: 4, to: 0 }
false => sections 0:0 1:0 symbols 0:8 found 1/0 0+4 sizes [8, 1] deleted parts 0,8,0,8,1 8,1,8,1,1
@ {"options":{"relax":true},"plan":{"page":16,"sections":[{"attrs":5,"parts":[[1,false]]},{"attrs":1,"parts":[[1,false]],"region":"r"}],"regions":[{"name":"r","origin":["num",0],"length":["num",14]}],"segments":[{"kind":"load"}],"events":[["seg",0],["sec",0],["addr",...],["sec",1],["endseg",0]]},"groups":[[{"kind":"prelude"}],[{"kind":"object","sections":[{"slot":"must","part":0,"size":8,"attrs":4,"relax":[[0,0,999,4]]},{"slot":"must","part":1,"size":1}],"symbols":[{"at":["sec",0,8]}]}]]}
["sub",["sym",0],["num",5]] => sections 0:0 1:0 symbols 0:8 found 1/0 0+4 refused Expression { place: Event(2), cause: Overflow }
["div",["num",32],["sub",["sym",0],["num",4]]] => sections 0:0 1:0 symbols 0:8 found 1/0 0+4 refused Expression { place: Event(2), cause: DivideByZero }
["sub",["num",18],["sym",0]] => sections 0:0 1:0 symbols 0:8 found 1/0 0+4 refused RegionOverflow { region: RegionId { number: 0 }, by: 1 }
["sub",["num",20],["sym",0]] => sections 0:0 1:0 symbols 0:8 found 1/0 0+4 refused OutsideRegion { event: 3, address: 16 }
# A region is used afresh in each placement: it has room for the section as it was at first, and for no byte more.
@ {"options":{"relax":true},"plan":{"page":16,"sections":[{"attrs":5,"parts":[[1,false]],"region":"r"}],"regions":[{"name":"r","origin":["num",64],"length":["num",...]}],"segments":[{"kind":"load"}],"events":[["seg",0],["sec",0],["endseg",0]]},"groups":[[{"kind":"prelude"}],[{"kind":"object","sections":[{"slot":"must","size":8,"attrs":4,"relax":[[0,0,7,2],[4,0,4,3]]}],"symbols":[{"at":["sec",0,8]}]}]]}
8 => sections 0:0 symbols 0:8 found 1/0 4+3 short 1 sizes [3] deleted 1/0 0+2 4+3 parts 64,3,0,3,1
"#;

/// So many sections of a file are told.
const SECTIONS: u32 = 8;

/// Where all stands while nothing is deleted.
#[derive(Clone, Copy)]
struct Unshrunk<'a> {
    link: &'a LinkInput,
    live: &'a Live,
    sections: &'a [Option<(PartId, u64)>],
    symbols: &'a SymbolPositions,
    parts: &'a [OutputRecordLayout],
}

/// Adds a place in a part.
fn add_place(line: &mut String, place: Option<(PartId, u64)>) -> Result<(), AllocError> {
    match place {
        Some((part, offset)) => write!(line, " {part}:{offset}", part = part.as_u32()),
        None => line.push_str(" -"),
    }
}

/// Adds the places of input sections.
fn add_sections(line: &mut String, sections: &[Option<(PartId, u64)>]) -> Result<(), AllocError> {
    line.push_str("sections")?;
    for place in sections {
        add_place(line, *place)?;
    }
    Ok(())
}

/// The place of a symbol.
fn symbol_place(symbols: &SymbolPositions, symbol: SymbolId) -> Option<(PartId, u64)> {
    let place = symbols.get(symbol)?;
    Some((place.part, place.offset))
}

/// Adds the places of so many symbols.
fn add_symbols(line: &mut String, symbols: &SymbolPositions, count: u32) -> Result<(), AllocError> {
    line.push_str(" symbols")?;
    for number in 0..count {
        add_place(line, symbol_place(symbols, SymbolId::from_u32(number)))?;
    }
    Ok(())
}

/// Adds ranges.
fn add_ranges(
    alloc: Global,
    line: &mut String,
    deltas: &SectionRelaxDeltas,
) -> Result<(), AllocError> {
    for range in &deltas.ranges(alloc)? {
        write!(line, " {start}+{length}", start = range.0, length = range.1)?;
    }
    Ok(())
}

/// Adds what a pass found in a section of a file with this number, unless it is nothing.
fn add_one_found(
    alloc: Global,
    line: &mut String,
    file: usize,
    one: &(FileId, u32, SectionRelaxDeltas, Option<u64>),
) -> Result<(), AllocError> {
    if one.2.is_empty() && one.3.is_none() {
        return Ok(());
    }
    write!(line, " {file}/{index}", index = one.1)?;
    add_ranges(alloc, line, &one.2)?;
    match one.3 {
        Some(bytes) => write!(line, " short {bytes}"),
        None => Ok(()),
    }
}

/// Adds what a pass finds in a section of a file with this number, if the section is there and can be looked at.
fn add_scanned(
    alloc: Global,
    line: &mut String,
    all: Unshrunk<'_>,
    number: usize,
    file: FileId,
    index: u32,
) -> Result<(), AllocError>
    requires { IsWellFormed all.link.now }
{
    lk_deltas::laws::nothing_is_of();
    let Some(found_in) = all.link.groups.file(file) else {
        return Ok(());
    };
    let Some(section) = found_in.sections.get(index as usize) else {
        return Ok(());
    };
    if !section.slot.is_regular() {
        return Ok(());
    }
    let before = StandingLink {
        link: all.link,
        live: all.live,
        sections: all.sections,
        symbols: all.symbols,
        parts: all.parts,
        deltas: &[],
    };
    for one in &relaxation_scan_pass(alloc, before, &[(file, index)])? {
        add_one_found(alloc, line, number, one)?;
    }
    Ok(())
}

/// Adds what a pass finds.
fn add_found(alloc: Global, line: &mut String, all: Unshrunk<'_>) -> Result<(), AllocError>
    requires { IsWellFormed all.link.now }
{
    line.push_str(" found")?;
    let groups = &all.link.groups;
    let mut number = 0usize;
    if groups.len() <= 65535 && groups.file_count() <= 16777216 {
        for file in groups.files() {
            for index in 0..SECTIONS {
                add_scanned(alloc, line, all, number, file.id, index)?;
            }
            number = number.saturating_add(1);
        }
    }
    Ok(())
}

/// Adds where all stands while nothing is deleted, and what a pass finds.
fn add_first(
    alloc: Global,
    line: &mut String,
    link: &LinkInput,
    live: &Live,
    owners: &PartOwners,
    parts: &[OutputRecordLayout],
) -> Result<(), AllocError>
    requires good { IsWellFormed link.now }
    requires live { AreLive link.now live.now }
    requires filled { (tables : TableSizes) × AreFilled (own_filling link.now tables live.now [] []) owners.now }
{
    lk_relax::laws::nothing_deleted_is_nothing_lost();
    let (sections, symbols) = compute_input_section_positions(alloc, link, live, owners, &[])?;
    add_sections(line, &sections)?;
    add_symbols(line, &symbols, link.groups.symbol_count().min(64) as u32)?;
    let all = Unshrunk {
        link,
        live,
        sections: &sections,
        symbols: &symbols,
        parts,
    };
    add_found(alloc, line, all)
}

/// Adds what is deleted of a section of a file with this number, if anything is.
fn add_deleted_of(
    alloc: Global,
    line: &mut String,
    file: usize,
    map: &RelaxDeltaMap,
    index: u32,
) -> Result<(), AllocError> {
    match map.get(index) {
        Some(deltas) => {
            write!(line, " {file}/{index}")?;
            add_ranges(alloc, line, deltas)
        }
        None => Ok(()),
    }
}

/// Adds what is deleted.
fn add_deleted(
    alloc: Global,
    line: &mut String,
    deltas: &[RelaxDeltaMap],
) -> Result<(), AllocError> {
    line.push_str(" deleted")?;
    for (file, map) in deltas.iter().enumerate() {
        for index in 0..SECTIONS {
            add_deleted_of(alloc, line, file, map, index)?;
        }
    }
    Ok(())
}

/// Adds how relaxation ends.
fn add_end(alloc: Global, line: &mut String, relaxed: &Relaxed) -> Result<(), AllocError> {
    add(line, "sizes", &relaxed.sizes)?;
    add_deleted(alloc, line, &relaxed.deltas)?;
    add_records(line, "parts", relaxed.placed.parts.as_slice())
}

/// Adds how relaxation ends behind a first placement, or why it doesn't.
fn add_passes<P: Platform>(
    alloc: Global,
    line: &mut String,
    link: &LinkInput,
    platform: &P,
    live: &Live,
    first: Placed,
) -> Result<(), AllocError>
    requires good { IsWellFormed link.now }
    requires live { AreLive link.now live.now }
    requires fits { size_refusal (own_filling link.now (P.table_sizes platform.now) live.now [] []) ≡ None }
    requires first { ArePlacedFirst (relaxing (P.segment_start platform.now) 0 (own_filling link.now (P.table_sizes platform.now) live.now [] [])) first }
{
    let by = Relaxation {
        link,
        live,
        platform,
        headers: 0,
    };
    match perform_iterative_relaxation(alloc, &by, &[], &[], first) {
        Ok(relaxed) => add_end(alloc, line, &relaxed),
        Err(PlaceError::NoMemory) => Err(AllocError),
        Err(error) => add(line, "refused", &error),
    }
}

/// Adds all of a link that is sized, with headers of no bytes.
fn add_sized<P: Platform>(
    alloc: Global,
    line: &mut String,
    link: &LinkInput,
    platform: &P,
    live: &Live,
    owners: &PartOwners,
) -> Result<(), AllocError>
    requires good { IsWellFormed link.now }
    requires live { AreLive link.now live.now }
    requires fits { size_refusal (own_filling link.now (P.table_sizes platform.now) live.now [] []) ≡ None }
    requires filled { AreFilled (own_filling link.now (P.table_sizes platform.now) live.now [] []) owners.now }
{
    let by = Relaxation {
        link,
        live,
        platform,
        headers: 0,
    };
    match place_first(alloc, &by, owners) {
        Ok(first) => {
            add_first(alloc, line, link, live, owners, first.parts.as_slice())?;
            add_passes(alloc, line, link, platform, live, first)
        }
        Err(PlaceError::NoMemory) => Err(AllocError),
        Err(error) => add(line, "refused at first", &error),
    }
}

/// Adds all of a link of which this is live.
fn add_live<P: Platform>(
    alloc: Global,
    line: &mut String,
    link: &LinkInput,
    platform: &P,
    live: &Live,
) -> Result<(), AllocError>
    requires good { IsWellFormed link.now }
    requires live { AreLive link.now live.now }
{
    match plain_owners(alloc, link, platform, live, &[]) {
        Ok(owners) => add_sized(alloc, line, link, platform, live, &owners),
        Err(SizeError::NoMemory) => Err(AllocError),
        Err(error) => add(line, "refused", &error),
    }
}

/// Adds all of a link, if it is well formed.
fn add_checked(alloc: Global, line: &mut String, link: &LinkInput) -> Result<(), AllocError> {
    if check_link(link).is_err() {
        return line.push_str("bad link");
    }
    match traverse_alone(alloc, link) {
        Ok(live) => add_live(alloc, line, link, &Small64, &live),
        Err(_) => line.push_str("not reached"),
    }
}

/// Adds a record: where it starts in memory and in the file, each with its bytes, its alignment, and its load address, if that isn't where
/// it starts.
fn add_record(line: &mut String, record: &OutputRecordLayout) -> Result<(), AllocError> {
    let (memory, bytes) = (record.mem_offset, record.mem_size);
    let (offset, in_file) = (record.file_offset, record.file_size);
    let (alignment, load) = (record.alignment.value(), record.lma_offset);
    write!(line, " {memory},{bytes},{offset},{in_file},{alignment}")?;
    if load == memory {
        return Ok(());
    }
    write!(line, ",{load}")
}

/// Adds records behind a word.
fn add_records(
    line: &mut String,
    word: &str,
    records: &[OutputRecordLayout],
) -> Result<(), AllocError> {
    write!(line, " {word}")?;
    for record in records {
        add_record(line, record)?;
    }
    Ok(())
}

/// Adds all of the link that a text stands for.
pub fn add_relaxed(alloc: Global, line: &mut String, text: &str) -> Result<(), AllocError> {
    match &read_link(alloc, text.as_bytes()) {
        Ok(link) => add_checked(alloc, line, link),
        Err(error) => write!(line, "no link: {error}"),
    }
}

#[test]
fn passes_delete_what_is_near(rt: HostRuntime) -> Result<(), Fail> {
    expect_rows(&rt, rt.alloc(), Asked::Relaxed, RELAXED)
}

#[test]
fn passes_go_by_what_stands_for_symbols(rt: HostRuntime) -> Result<(), Fail> {
    expect_rows(&rt, rt.alloc(), Asked::Relaxed, TARGETS)
}

/// Adds where offsets of a section go of which nothing is deleted.
fn add_kept(line: &mut String) -> Result<(), AllocError> {
    for offset in [0, 4, 6, 8, 16] {
        let place = opt_input_to_output(None, offset);
        write!(line, " {place}")?;
    }
    Ok(())
}

/// Adds where they go where ranges are deleted.
fn add_moved(line: &mut String, deltas: &SectionRelaxDeltas) -> Result<(), AllocError> {
    for offset in [0, 4, 6, 8, 16] {
        let place = opt_input_to_output(Some(deltas), offset);
        write!(line, " {place}")?;
    }
    Ok(())
}

/// Where offsets go where nothing is deleted, four bytes are, and three ranges, of which two touch.
fn told_offsets(alloc: Global) -> Result<String, AllocError> {
    let one = SectionRelaxDeltas::new(alloc, &[(4, 4)])?;
    let three = SectionRelaxDeltas::new(alloc, &[(0, 1), (4, 2), (6, 2)])?;
    let mut line = String::new(alloc);
    add_kept(&mut line)?;
    add_moved(&mut line, &one)?;
    add_moved(&mut line, &three)?;
    Ok(line)
}

#[test]
fn offsets_go_by_what_is_deleted_before_them(rt: HostRuntime) -> Result<(), Fail> {
    let told = told_offsets(rt.alloc())?;
    expect_text(&rt, told.as_str(), " 0 4 6 8 16 0 4 4 4 12 0 3 3 3 11");
    Ok(())
}

/// What ranges cut out of five numbers, one of them without items.
fn told_shards(alloc: Global) -> Result<String, AllocError> {
    let mut numbers = [1, 2, 3, 4, 5];
    let shards = split_ordered_symbol_ranges(alloc, &mut numbers, &[0..2, 2..2, 4..5])?;
    let mut line = String::new(alloc);
    for (start, items) in &shards {
        write!(line, " {start} {items:?}")?;
    }
    Ok(line)
}

#[test]
fn symbols_are_cut_by_ranges(rt: HostRuntime) -> Result<(), Fail> {
    let told = told_shards(rt.alloc())?;
    expect_text(&rt, told.as_str(), " 0 [1, 2] 0 [] 4 [5]");
    Ok(())
}

/// What 7 bytes, and the most, take in a part of this alignment.
fn told_capacities(alloc: Global, packed: bool) -> Result<String, AllocError> {
    let part = PlanPart {
        alignment: 8,
        packed,
    };
    let few = Section { size: 7 }.capacity(&part);
    let most = Section { size: u64::MAX }.capacity(&part);
    format!(in alloc; "{few:?} {most:?}")
}

#[test]
fn sizes_are_rounded_up(rt: HostRuntime) -> Result<(), Fail> {
    let plain = told_capacities(rt.alloc(), false)?;
    let packed = told_capacities(rt.alloc(), true)?;
    expect_text(&rt, plain.as_str(), "Some(8) None");
    expect_text(&rt, packed.as_str(), "Some(7) Some(18446744073709551615)");
    Ok(())
}
