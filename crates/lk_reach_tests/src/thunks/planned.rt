//! What is planned for a link: where its objects stand, their blocks, and the thunks of each.

ghost use Rattle.std.specs.Prelude.{◌+◌, ◌<◌, ◌^◌};
ghost use Rattle.lk_link.specs.WellFormed.{IsWellFormed};
ghost use Rattle.lk_thunks.specs.Ranges.{total_primary_bytes};

use crate::rows::{Asked, expect_rows};
use crate::thunks::blocks::add_user;
use crate::thunks::{OfThunks, number};
use lk_check::check_link;
use lk_input::{InputError, read_link};
use lk_link::{FileId, LinkInput};
use lk_live::{GcError, Live, traverse_alone};
use lk_thunks::{
    Arch, Small64Arch, ThunkBlock, ThunkBlockId, ThunkLayoutBuilder, total_primary_bytes,
};
use std::alloc::{AllocError, Global};
use std::test::Fail;

/// A weak undefined target; an indirect definition that another part names; one in an empty section of the primary part, where
/// nobody owns the block; too little code for thunks, and no part for them; a sorted section, with a second object behind it; a
/// definition in another object, needed by the first one alone; four objects in two blocks, with a branch from the first to the
/// last. What the rows behind these are for stands above each.
const PLANNED: &str = r#"
0 {"plan":{"page":16,"sections":[{"attrs":5,"parts":[[1,false]]}],"segments":[{"kind":"load"}],"events":[["seg",0],["sec",0],["endseg",0]],"primary":0},"groups":[[{"kind":"prelude"}],[{"kind":"object","sections":[{"slot":"must","part":0,"size":200,"attrs":4,"relocs":[[0,"Relative",0,0,true]]},{"slot":"unloaded","part":0,"size":2097153,"attrs":4}],"symbols":[{"at":["undef"],"weak":true}]}]],"options":{"branch_range":2097162}} => 1.0 0 200, ThunkBlock with 1 thunks 0, 1.0 0 owner
4 {"plan":{"page":16,"sections":[{"attrs":5,"parts":[[1,false]]},{"attrs":5,"parts":[[1,false]]}],"segments":[{"kind":"load"}],"events":[["seg",0],["sec",0],["sec",1],["endseg",0]],"primary":1},"groups":[[{"kind":"prelude"}],[{"kind":"object","sections":[{"slot":"must","part":0,"size":4,"attrs":4,"relocs":[[0,"Relative",0,0,true]]},{"slot":"must","part":1,"size":8,"attrs":4},{"slot":"unloaded","part":0,"size":2097153,"attrs":4}],"symbols":[{"at":["sec",1,0],"flags":4}]}]],"options":{"branch_range":2097153}} => 1.0 4 12, ThunkBlock with 1 thunks 0, 1.0 0 owner
4 {"plan":{"page":16,"sections":[{"attrs":5,"parts":[[1,false]]},{"attrs":5,"parts":[[1,false]]}],"segments":[{"kind":"load"}],"events":[["seg",0],["sec",0],["sec",1],["endseg",0]],"primary":1},"groups":[[{"kind":"prelude"}],[{"kind":"object","sections":[{"slot":"must","part":0,"size":4,"attrs":4,"relocs":[[0,"Relative",0,0,true]]},{"slot":"must","part":1,"size":0},{"slot":"unloaded","part":0,"size":2097153,"attrs":4}],"symbols":[{"at":["sec",1,0]}]}]],"options":{"branch_range":2097153}} => 1.0 4 4, ThunkBlock with 1 thunks 0
0 {"plan":{"page":16,"sections":[{"attrs":5,"parts":[[1,false]]}],"segments":[{"kind":"load"}],"events":[["seg",0],["sec",0],["endseg",0]],"primary":0},"groups":[[{"kind":"prelude"}],[{"kind":"object","sections":[{"slot":"must","part":0,"size":4,"attrs":4,"relocs":[[0,"None",0,0,true]]}],"symbols":[{"at":["sec",0,0]}]}]],"options":{"branch_range":3145728,"entry":0}} => no thunks
0 {"plan":{"page":16,"sections":[{"attrs":5,"parts":[[1,false]]}],"segments":[{"kind":"load"}],"events":[["seg",0],["sec",0],["endseg",0]]},"groups":[[{"kind":"prelude"}],[{"kind":"object","sections":[{"slot":"must","part":0,"size":4000000,"attrs":4}]}]],"options":{"branch_range":3145728}} => no thunks
2 {"options":{"branch_range":2097160,"entry":1},"plan":{"page":1,"sections":[{"attrs":1,"parts":[[4,false]]},{"attrs":1,"parts":[[1,false]]}],"segments":[{"kind":"load"}],"events":[["seg",0],["sec",0],["sec",1],["endseg",0]],"primary":0},"groups":[[{"kind":"prelude"}],[{"kind":"object","sections":[{"slot":"must","part":0,"size":8,"attrs":4,"relocs":[[0,"Relative",0,0,true]]},{"slot":"must","part":1,"size":2,"attrs":4},{"slot":"must","part":0,"name":"x","sorted":true,"size":4,"attrs":4},{"slot":"unloaded","part":0,"size":3000000,"attrs":4}],"symbols":[{"at":["undef"],"weak":true},{"at":["common",0,5]}]}],[{"kind":"object","sections":[{"slot":"must","part":0,"size":4}]}]]} => 1.0 2 14, 2.0 14 18, ThunkBlock with 1 thunks 0, 1.0 0 owner, 2.0 0
0 {"options":{"branch_range":2097156},"plan":{"page":1,"sections":[{"attrs":5,"parts":[[1,false]]}],"segments":[{"kind":"load"}],"events":[["seg",0],["sec",0],["endseg",0]],"primary":0},"groups":[[{"kind":"prelude"}],[{"kind":"object","sections":[{"slot":"must","part":0,"size":3,"attrs":4,"relocs":[[0,"Relative",0,0,true]]},{"slot":"unloaded","part":0,"size":3000000,"attrs":4}],"symbols":[{"at":["undef"],"def":1}]}],[{"kind":"object","sections":[{"slot":"must","part":0,"size":3,"attrs":4,"relocs":[[0,"Relative",0,0,true]]}],"symbols":[{"at":["sec",0,0]}]}]]} => 1.0 0 3, 2.0 3 6, ThunkBlock with 1 thunks 1, 1.0 0 owner, 2.0 0
0 {"options":{"branch_range":3145728},"plan":{"page":16,"sections":[{"attrs":5,"parts":[[1,false]]}],"segments":[{"kind":"load"}],"events":[["seg",0],["sec",0],["endseg",0]],"primary":0},"groups":[[{"kind":"prelude"}],[{"kind":"object","sections":[{"slot":"must","part":0,"size":786432,"attrs":4,"relocs":[[0,"Relative",0,0,true]]}],"symbols":[{"at":["undef"],"def":1}]},{"kind":"object","sections":[{"slot":"must","part":0,"size":786432,"attrs":4}]},{"kind":"object","sections":[{"slot":"must","part":0,"size":786432,"attrs":4}]},{"kind":"object","sections":[{"slot":"must","part":0,"size":786432,"attrs":4}],"symbols":[{"at":["sec",0,0]}]}]]} => 1.0 0 786432, 1.1 786432 1572864, 1.2 1572864 2359296, 1.3 2359296 3145728, ThunkBlock with 1 thunks 1, ThunkBlock with 0 thunks, 1.0 0 owner, 1.1 0, 1.2 1 owner, 1.3 1
# A definition in the primary part, whose object and the one that names it span 8 bytes of the 100 that are planned with. With an entry in plt it counts from 0: then that is where the object ends, 1024, and 99 and 100.
@ 1016 {"options":{"branch_range":2097252},"plan":{"page":1,"sections":[{"attrs":5,"parts":[[16,false]]},{"attrs":5,"parts":[[1,false]]},{"attrs":3,"parts":[[8,false]]}],"segments":[{"kind":"load"}],"events":[["seg",0],["sec",0],["sec",1],["sec",2],["endseg",0]],"plt":0,"primary":1,"got":2},"groups":[[{"kind":"prelude"}],[{"kind":"object","sections":[{"slot":"must","part":1,"size":8,"attrs":4,"relocs":[[0,"...",0,0,true]]},{"slot":"unloaded","part":1,"size":2097252,"attrs":4}],"symbols":[{"at":["sec",0,4]}]}]]}
Relative | Got | None => 1.0 1016 1024, ThunkBlock with 0 thunks, 1.0 0 owner
PltRelative | PltRelGotBase => 1.0 1016 1024, ThunkBlock with 1 thunks 0, 1.0 0 owner
@ ... {"options":{"branch_range":2097252},"plan":{"page":1,"sections":[{"attrs":5,"parts":[[16,false]]},{"attrs":5,"parts":[[1,false]]},{"attrs":3,"parts":[[8,false]]}],"segments":[{"kind":"load"}],"events":[["seg",0],["sec",0],["sec",1],["sec",2],["endseg",0]],"plt":0,"primary":1,"got":2},"groups":[[{"kind":"prelude"}],[{"kind":"object","sections":[{"slot":"must","part":1,"size":8,"attrs":4,"relocs":[[0,"PltRelative",0,0,true]]},{"slot":"unloaded","part":1,"size":2097252,"attrs":4}],"symbols":[{"at":["sec",0,4]}]}]]}
91 => 1.0 91 99, ThunkBlock with 0 thunks, 1.0 0 owner
92 => 1.0 92 100, ThunkBlock with 1 thunks 0, 1.0 0 owner
# What isn't defined in the primary part goes by where the object ends alone, 99 and 100: absolute, undefined, a common there, defined by a dynamic file, in another part; and what is in the primary part and known only when the program runs. What is there by itself is near.
@ 91 {"options":{"branch_range":2097252},"plan":{"page":1,"sections":[{"attrs":5,"parts":[[16,false]]},{"attrs":5,"parts":[[1,false]]}],"segments":[{"kind":"load"}],"events":[["seg",0],["sec",0],["sec",1],["endseg",0]],"primary":1},"groups":[[{"kind":"prelude"}],[{"kind":"object","sections":[{"slot":"must","part":1,"size":8,"attrs":4,"relocs":[[0,"Relative",0,0,true]]},{"slot":"unloaded","part":1,"size":2097252,"attrs":4},{"slot":"must","part":0,"size":1}],"symbols":[{...}]}]]}
"at":["abs",5] | "at":["abs",5],"flags":1 | "at":["undef"],"weak":true | "at":["common",1,4] | "at":["common",0,4] | "at":["sec",2,0] | "at":["sec",0,4],"flags":2 | "at":["sec",0,4],"flags":4 | "at":["sec",0,4] => 1.0 91 99, ThunkBlock with 0 thunks, 1.0 0 owner
"at":["undef"],"def":1}]}],[{"kind":"dynamic","symbols":[{"at":["dyn"],"flags":2 | "at":["undef"],"def":1}]}],[{"kind":"dynamic","symbols":[{"at":["dyn"] => 1.0 91 99, ThunkBlock with 0 thunks, 1.0 0 owner
@ 92 {"options":{"branch_range":2097252},"plan":{"page":1,"sections":[{"attrs":5,"parts":[[16,false]]},{"attrs":5,"parts":[[1,false]]}],"segments":[{"kind":"load"}],"events":[["seg",0],["sec",0],["sec",1],["endseg",0]],"primary":1},"groups":[[{"kind":"prelude"}],[{"kind":"object","sections":[{"slot":"must","part":1,"size":8,"attrs":4,"relocs":[[0,"Relative",0,0,true]]},{"slot":"unloaded","part":1,"size":2097252,"attrs":4},{"slot":"must","part":0,"size":1}],"symbols":[{...}]}]]}
"at":["abs",5] | "at":["abs",5],"flags":1 | "at":["undef"],"weak":true | "at":["common",1,4] | "at":["common",0,4] | "at":["sec",2,0] | "at":["sec",0,4],"flags":2 | "at":["sec",0,4],"flags":4 => 1.0 92 100, ThunkBlock with 1 thunks 0, 1.0 0 owner
"at":["undef"],"def":1}]}],[{"kind":"dynamic","symbols":[{"at":["dyn"],"flags":2 | "at":["undef"],"def":1}]}],[{"kind":"dynamic","symbols":[{"at":["dyn"] => 1.0 92 100, ThunkBlock with 1 thunks 1, 1.0 0 owner
"at":["sec",0,4] => 1.0 92 100, ThunkBlock with 0 thunks, 1.0 0 owner
# A section of the primary part counts as there, be it left out, debug data, merged or discarded: where its object is. Here both objects span 58 bytes, and end at 1008 and 1058.
@ 1000 {"options":{"branch_range":2097252},"plan":{"page":1,"sections":[{"attrs":5,"parts":[[16,false]]},{"attrs":5,"parts":[[1,false]]}],"segments":[{"kind":"load"}],"events":[["seg",0],["sec",0],["sec",1],["endseg",0]],"primary":1},"groups":[[{"kind":"prelude"}],[{"kind":"object","sections":[{"slot":"must","part":1,"size":8,"attrs":4,"relocs":[[0,"None",0,0,true]]},{"slot":"unloaded","part":1,"size":2097252,"attrs":4}],"symbols":[{"at":["undef"],"def":1}]}],[{"kind":"object","sections":[{"slot":"must","part":1,"size":50},{...}],"symbols":[{"at":["sec",1,0],"name":"t"}]}]]}
"slot":"unloaded","part":1,"size":7 | "slot":"merge","part":1,"size":2,"data":"6100","strings":true | "slot":"debug","part":1,"size":7 | "slot":"mustdebug","part":1,"size":7 | "slot":"discard","part":1,"size":7 => 1.0 1000 1008, 2.0 1008 1058, ThunkBlock with 0 thunks, 1.0 0 owner, 2.0 0
"slot":"must","part":0,"size":7 | "slot":"unloaded","part":0,"size":7 | "slot":"discard","part":0,"size":7 | "slot":"discard","part":9,"size":7 => 1.0 1000 1008, 2.0 1008 1058, ThunkBlock with 1 thunks 1, 1.0 0 owner, 2.0 0
# The same where they span 100 bytes, and the first one ends at 8.
@ 0 {"options":{"branch_range":2097252},"plan":{"page":1,"sections":[{"attrs":5,"parts":[[16,false]]},{"attrs":5,"parts":[[1,false]]}],"segments":[{"kind":"load"}],"events":[["seg",0],["sec",0],["sec",1],["endseg",0]],"primary":1},"groups":[[{"kind":"prelude"}],[{"kind":"object","sections":[{"slot":"must","part":1,"size":8,"attrs":4,"relocs":[[0,"None",0,0,true]]},{"slot":"unloaded","part":1,"size":2097252,"attrs":4}],"symbols":[{"at":["undef"],"def":1}]}],[{"kind":"object","sections":[{"slot":"must","part":1,"size":92},{...}],"symbols":[{"at":["sec",1,0],"name":"t"}]}]]}
"slot":"unloaded","part":1,"size":7 | "slot":"merge","part":1,"size":2,"data":"6100","strings":true | "slot":"debug","part":1,"size":7 | "slot":"mustdebug","part":1,"size":7 | "slot":"discard","part":1,"size":7 => 1.0 0 8, 2.0 8 100, ThunkBlock with 1 thunks 1, 1.0 0 owner, 2.0 0
# What another part names there: the first block has it, whatever comes of its section.
@ 500 {"options":{"branch_range":2097252},"plan":{"page":1,"sections":[{"attrs":5,"parts":[[16,false]]},{"attrs":5,"parts":[[1,false]]}],"segments":[{"kind":"load"}],"events":[["seg",0],["sec",0],["sec",1],["endseg",0]],"primary":1},"groups":[[{"kind":"prelude"}],[{"kind":"object","sections":[{"slot":"must","part":0,"size":8,"attrs":4,"relocs":[[0,"None",0,0,true]]},{"slot":"unloaded","part":1,"size":2097252,"attrs":4}],"symbols":[{"at":["undef"],"def":1}]}],[{"kind":"object","sections":[{"slot":"must","part":1,"size":50},{...}],"symbols":[{"at":["sec",1,0],"name":"t"}]}]]}
"slot":"unloaded","part":1,"size":7 | "slot":"merge","part":1,"size":2,"data":"6100","strings":true | "slot":"debug","part":1,"size":7 | "slot":"mustdebug","part":1,"size":7 | "slot":"discard","part":1,"size":7 => 1.0 500 500, 2.0 500 550, ThunkBlock with 1 thunks 1, 2.0 0 owner
"slot":"must","part":0,"size":7 | "slot":"discard","part":0,"size":7 => 1.0 500 500, 2.0 500 550, ThunkBlock with 0 thunks, 2.0 0 owner
"#;

/// Adds what stands between two things.
fn add_comma(line: &mut String) -> Result<(), AllocError> {
    if !line.is_empty() {
        line.push_str(", ")?;
    }
    Ok(())
}

/// Adds where objects stand.
fn add_ranges(line: &mut String, ranges: &[(FileId, u64, u64)]) -> Result<(), AllocError> {
    for range in ranges {
        let (file, begin, end) = *range;
        add_comma(line)?;
        write!(line, "{file} {begin} {end}")?;
    }
    Ok(())
}

/// Adds a block's thunks.
fn add_set(line: &mut String, block: &ThunkBlock) -> Result<(), AllocError> {
    add_comma(line)?;
    write!(line, "{block:?}")?;
    for symbol in block.symbols.as_slice() {
        let number = symbol.as_u32();
        write!(line, " {number}")?;
    }
    Ok(())
}

/// Adds those of all blocks.
fn add_sets(line: &mut String, blocks: &[ThunkBlock]) -> Result<(), AllocError> {
    for block in blocks {
        add_set(line, block)?;
    }
    Ok(())
}

/// Adds which block each object is in.
fn add_users(line: &mut String, users: &[(FileId, ThunkBlockId, bool)]) -> Result<(), AllocError> {
    for user in users {
        let (file, block, owns) = *user;
        add_comma(line)?;
        write!(line, "{file} ")?;
        add_user(line, block, owns)?;
    }
    Ok(())
}

/// Adds what a builder plans.
fn add_built(
    alloc: Global,
    line: &mut String,
    builder: ThunkLayoutBuilder,
    link: &LinkInput,
    live: &Live,
    start: u64,
) -> Result<(), AllocError>
    requires good { IsWellFormed link.now }
    requires room { start + total_primary_bytes link.now live.now < 2 ^ 64 }
{
    let ranges = builder.collect_primary_ranges(alloc, link, live, start)?;
    add_ranges(line, ranges.as_slice())?;
    let (blocks, users) = builder.build(alloc, link, live, start)?;
    add_sets(line, blocks.as_slice())?;
    add_users(line, users.as_slice())
}

/// Adds what is planned for what is live of a link.
fn add_live(
    alloc: Global,
    line: &mut String,
    link: &LinkInput,
    live: &Live,
    start: u64,
) -> Result<(), AllocError>
    requires { IsWellFormed link.now }
{
    Small64Arch.configs_are_lawful();
    let config = Small64Arch.thunk_config(&link.options, &link.plan);
    let primary = total_primary_bytes(link, live);
    match ThunkLayoutBuilder::new(link, config) {
        Some(builder) if start < 1 << 62 && primary < 1 << 62 => {
            add_built(alloc, line, builder, link, live, start)
        }
        Some(_) => line.push_str("no room"),
        None => line.push_str("no thunks"),
    }
}

/// Adds what is planned for what is live.
fn add_traversed(
    alloc: Global,
    line: &mut String,
    link: &LinkInput,
    live: &Result<Live, GcError>,
    start: u64,
) -> Result<(), AllocError>
    requires { IsWellFormed link.now }
{
    match live {
        Ok(live) => add_live(alloc, line, link, live, start),
        Err(_) => line.push_str("faults"),
    }
}

/// Adds what is planned for a link.
fn add_link(
    alloc: Global,
    line: &mut String,
    link: &LinkInput,
    start: u64,
) -> Result<(), AllocError> {
    if check_link(link).is_err() {
        return line.push_str("bad link");
    }
    let live = traverse_alone(alloc, link);
    add_traversed(alloc, line, link, &live, start)
}

/// Adds what is planned for a link that there is.
fn add_found(
    alloc: Global,
    line: &mut String,
    link: &Result<LinkInput, InputError>,
    start: u64,
) -> Result<(), AllocError> {
    match link {
        Ok(link) => add_link(alloc, line, link, start),
        Err(error) => write!(line, "no link: {error}"),
    }
}

/// Adds what is planned for the link of a text.
pub fn add_planned(alloc: Global, line: &mut String, text: &str) -> Result<(), AllocError> {
    let (start, text) = text.split_once(' ').unwrap_or((text, ""));
    let link = read_link(alloc, text.as_bytes());
    add_found(alloc, line, &link, number(start))
}

#[test]
fn thunks_are_planned_by_windows(rt: HostRuntime) -> Result<(), Fail> {
    expect_rows(&rt, rt.alloc(), Asked::Thunks(OfThunks::Planned), PLANNED)
}
