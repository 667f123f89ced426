//! Which path is shown.

ghost use Rattle.lk_link.specs.WellFormed.{IsWellFormed};

use crate::paths::OfPaths;
use crate::rows::{Asked, expect_rows};
use lk_explain::{ExplainError, Unit, explain};
use lk_link::{FileId, LinkInput};
use std::alloc::{AllocError, Global};
use std::test::Fail;

const SHOWN: &str = r#"
# The chain of a section, a symbol and a section; one that isn't reached; what isn't there.
@ ...: {"plan":{"page":1,"sections":[{"parts":[[1,false]]}],"events":[["sec",0]]},"groups":[[{"kind":"prelude"}],[{"kind":"object","sections":[{"slot":"must","size":1,"relocs":[[0,"Absolute",0,0,false]]},{"slot":"unloaded","size":1},{"slot":"unloaded","size":1}],"symbols":[{"at":["sec",1,0]}]}]]}
1 0 0 => 1 0 0
0 => 1 0 0, 0
1 0 1 => 1 0 0, 0, 1 0 1
1 0 2 => not reached
1 0 3 | 9 | 0 0 0 | 1 1 0 | 3 0 0 => no such unit
# A longer one, and a symbol that doesn't stand for itself.
@ ...: {"plan":{"page":1,"sections":[{"parts":[[1,false]]}],"events":[["sec",0]]},"groups":[[{"kind":"prelude"}],[{"kind":"object","sections":[{"slot":"must","size":1,"relocs":[[0,"Absolute",0,0,false]]},{"slot":"unloaded","size":1,"relocs":[[0,"Absolute",1,0,false]]},{"slot":"unloaded","size":1}],"symbols":[{"at":["sec",1,0]},{"at":["sec",2,0]},{"at":["undef"],"def":0}]}]]}
1 0 2 => 1 0 0, 0, 1 0 1, 1, 1 0 2
1 => 1 0 0, 0, 1 0 1, 1
2 | 3 => no such unit
# The members of a section group.
@ ...: {"plan":{"page":1,"sections":[{"parts":[[1,false]]}],"events":[["sec",0]]},"groups":[[{"kind":"prelude"}],[{"kind":"object","sections":[{"slot":"must","size":1,"group":0},{"slot":"unloaded","size":1,"group":0},{"slot":"unloaded","size":1,"relocs":[[0,"Absolute",0,0,false]],"group":0},{"slot":"unloaded","size":1}],"symbols":[{"at":["sec",3,0]}]}]]}
1 0 1 => 1 0 0, 1 0 1
1 0 2 => 1 0 0, 1 0 2
1 0 3 => 1 0 0, 1 0 2, 0, 1 0 3
# Of two sections that ask for a symbol the first, and of two symbols at a section the one with the lesser number, though its reference comes last.
@ ...: {"plan":{"page":1,"sections":[{"parts":[[1,false]]}],"events":[["sec",0]]},"groups":[[{"kind":"prelude"}],[{"kind":"object","sections":[{"slot":"must","size":1,"relocs":[[0,"Absolute",1,0,false],[0,"Absolute",0,0,false]]},{"slot":"must","size":1,"relocs":[[0,"Absolute",0,0,false]]},{"slot":"unloaded","size":1}],"symbols":[{"at":["sec",2,0]},{"at":["sec",2,0]}]}]]}
1 0 2 => 1 0 0, 0, 1 0 2
1 => 1 0 0, 1
# A symbol comes before a section: the entry, and one that is exported behind the sections of its file.
@ ...: {"options":{"entry":0},"plan":{"page":1,"sections":[{"parts":[[1,false]]}],"events":[["sec",0]]},"groups":[[{"kind":"prelude"}],[{"kind":"object","sections":[{"slot":"must","size":1,"group":0},{"slot":"unloaded","size":1,"group":0}],"symbols":[{"at":["sec",1,0]}]}]]}
1 0 1 => 0, 1 0 1
0 => 0
@ ...: {"options":{"output":"shared"},"plan":{"page":1,"sections":[{"parts":[[1,false]]}],"events":[["sec",0]]},"groups":[[{"kind":"prelude"}],[{"kind":"object","sections":[{"slot":"must","size":1,"group":0},{"slot":"unloaded","size":1,"group":0}],"symbols":[{"at":["sec",1,0],"name":"f"}]}]]}
1 0 1 => 0, 1 0 1
# What is merged or discarded is reached where a symbol there is asked for, and else isn't; nor is debug data that nothing asks for.
@ ...: {"plan":{"page":1,"sections":[{"parts":[[1,false]]}],"events":[["sec",0]]},"groups":[[{"kind":"prelude"}],[{"kind":"object","sections":[{"slot":"must","size":1,"relocs":[[0,"Absolute",0,0,false],[0,"Absolute",1,0,false]]},{"slot":"merge","size":2,"data":"6100","strings":true},{"slot":"merge","size":2,"data":"6100","strings":true},{"slot":"discard","size":1},{"slot":"discard","size":1},{"slot":"debug","size":1},{"slot":"mustdebug","size":1}],"symbols":[{"at":["sec",1,0]},{"at":["sec",3,0]}]}]]}
1 0 1 => 1 0 0, 0, 1 0 1
1 0 3 => 1 0 0, 1, 1 0 3
1 0 2 | 1 0 4 | 1 0 5 => not reached
1 0 6 => 1 0 6
# A candidate of an output section, by the symbol at its start.
@ ...: {"options":{"entry":0},"plan":{"page":1,"sections":[{"parts":[[1,false]]}],"events":[["sec",0]]},"groups":[[{"kind":"prelude"}],[{"kind":"synthetic","symbols":[{"at":["start",0]},{"at":["end",0]}],"candidates":[[0,1,1,0],[0,1,1,1]]},{"kind":"object","sections":[{"slot":"unloaded","size":1},{"slot":"unloaded","size":1}],"symbols":[]}]]}
1 1 1 => 0, 1 1 1
1 => not reached
# Two members of a section group that are found with the greater one first: the lesser one counts for a third. What each of them refers to itself is reached as well.
@ ...: {"plan":{"page":1,"sections":[{"parts":[[1,false]]}],"events":[["sec",0]]},"groups":[[{"kind":"prelude"}],[{"kind":"object","sections":[{"slot":"must","size":1,"relocs":[[0,"Absolute",0,0,false],[0,"Absolute",1,0,false]]},{"slot":"unloaded","size":1},{"slot":"unloaded","size":1,"group":0},{"slot":"unloaded","size":1,"relocs":[[0,"Absolute",2,0,false]],"group":0},{"slot":"unloaded","size":1,"relocs":[[0,"Absolute",3,0,false]],"group":0},{"slot":"unloaded","size":1}],"symbols":[{"at":["sec",3,0]},{"at":["sec",2,0]},{"at":["sec",1,0]},{"at":["sec",5,0]}]}]]}
1 0 2 => 1 0 0, 1, 1 0 2
1 0 3 => 1 0 0, 0, 1 0 3
1 0 4 => 1 0 0, 1, 1 0 2, 1 0 4
1 0 1 => 1 0 0, 0, 1 0 3, 2, 1 0 1
1 0 5 => 1 0 0, 1, 1 0 2, 1 0 4, 3, 1 0 5
# The same, where the first one that is met is in the last file: groups of two files have one number, and are two.
@ ...: {"plan":{"page":1,"sections":[{"parts":[[1,false]]}],"events":[["sec",0]]},"groups":[[{"kind":"prelude"}],[{"kind":"object","sections":[{"slot":"unloaded","size":1,"group":0},{"slot":"unloaded","size":1,"group":0}],"symbols":[{"at":["sec",0,0]}]},{"kind":"object","sections":[{"slot":"unloaded","size":1,"group":0},{"slot":"unloaded","size":1,"group":0}],"symbols":[{"at":["sec",1,0]}]},{"kind":"object","sections":[{"slot":"must","size":1,"relocs":[[0,"Absolute",1,0,false],[0,"Absolute",0,0,false]]}],"symbols":[{"at":["undef"],"def":0},{"at":["undef"],"def":1}]}]]}
1 0 1 => 1 2 0, 0, 1 0 0, 1 0 1
1 1 0 => 1 2 0, 1, 1 1 1, 1 1 0
# Two symbols at one output section that are found with the greater one first, and one that is found by a candidate.
@ ...: {"plan":{"page":1,"sections":[{"parts":[[1,false]]}],"events":[["sec",0]]},"groups":[[{"kind":"prelude"}],[{"kind":"synthetic","symbols":[{"at":["start",0]},{"at":["end",0]},{"at":["start",0]}],"candidates":[[0,1,1,1],[0,1,1,2]]},{"kind":"object","sections":[{"slot":"must","size":1,"relocs":[[0,"Absolute",0,0,false],[0,"Absolute",1,0,false]]},{"slot":"unloaded","size":1,"relocs":[[0,"Absolute",2,0,false]]},{"slot":"unloaded","size":1}],"symbols":[{"at":["undef"],"def":1},{"at":["undef"],"def":0},{"at":["undef"],"def":2}]}]]}
1 1 1 => 1 1 0, 0, 1 1 1
1 1 2 => 1 1 0, 0, 1 1 2
1 => 1 1 0, 1
2 => 1 1 0, 0, 1 1 1, 2
# Symbols of two files at one output section ask for the candidates of their own files.
@ ...: {"plan":{"page":1,"sections":[{"parts":[[1,false]]}],"events":[["sec",0]]},"groups":[[{"kind":"prelude"}],[{"kind":"synthetic","symbols":[{"at":["start",0]}],"candidates":[[0,1,2,1]]},{"kind":"synthetic","symbols":[{"at":["start",0]}],"candidates":[[0,1,2,2]]},{"kind":"object","sections":[{"slot":"must","size":1,"relocs":[[0,"Absolute",0,0,false],[0,"Absolute",1,0,false]]},{"slot":"unloaded","size":1},{"slot":"unloaded","size":1}],"symbols":[{"at":["undef"],"def":0},{"at":["undef"],"def":1}]}]]}
1 2 1 => 1 2 0, 0, 1 2 1
1 2 2 => 1 2 0, 1, 1 2 2
# Sections of files behind ones that have none.
@ ...: {"plan":{"page":1,"sections":[{"parts":[[1,false]]}],"events":[["sec",0]]},"groups":[[{"kind":"prelude"}],[],[{"kind":"object","sections":[],"symbols":[]},{"kind":"object","sections":[{"slot":"unloaded","size":1}],"symbols":[{"at":["sec",0,0]}]},{"kind":"object","sections":[],"symbols":[]}],[{"kind":"object","sections":[{"slot":"must","size":1,"relocs":[[0,"Absolute",0,0,false]]}],"symbols":[{"at":["undef"],"def":0}]},{"kind":"object","sections":[],"symbols":[]}]]}
2 1 0 => 3 0 0, 0, 2 1 0
3 0 0 => 3 0 0
# Two scripts, and an expression of the location counter: what it refers to is asked for by roots, and so are the symbols of both that aren't only provided.
@ ...: {"plan":{"page":1,"sections":[{"parts":[[1,false]]}],"events":[["loc",["sym",1]],["sec",0]]},"groups":[[{"kind":"prelude"}],[{"kind":"script","symbols":[{"at":["redirect",["num",1],["none"],false],"name":"a"}]},{"kind":"object","sections":[{"slot":"unloaded","size":1},{"slot":"unloaded","size":1}],"symbols":[{"at":["sec",0,0]},{"at":["sec",1,0]}]},{"kind":"script","symbols":[{"at":["redirect",["sym",2],["none"],false],"name":"b"},{"at":["redirect",["num",1],["none"],true],"name":"c"}]}]]}
0 => 0
1 => 1
1 1 0 => 1, 1 1 0
3 => 3
2 => 3, 2
1 1 1 => 3, 2, 1 1 1
4 => not reached
# What asks for itself, and in a ring; without collection each section is its own root.
@ ...: {"plan":{"page":1,"sections":[{"parts":[[1,false]]}],"events":[["sec",0]]},"groups":[[{"kind":"prelude"}],[{"kind":"object","sections":[{"slot":"must","size":1,"relocs":[[0,"Absolute",0,0,false]]},{"slot":"unloaded","size":1,"relocs":[[0,"Absolute",2,0,false],[0,"Absolute",1,0,false]]}],"symbols":[{"at":["sec",0,0]},{"at":["sec",1,0]},{"at":["sec",0,0]}]}]]}
1 0 0 => 1 0 0
0 => 1 0 0, 0
1 0 1 | 1 | 2 => not reached
@ ...: {"options":{"gc":false},"plan":{"page":1,"sections":[{"parts":[[1,false]]}],"events":[["sec",0]]},"groups":[[{"kind":"prelude"}],[{"kind":"object","sections":[{"slot":"must","size":1,"relocs":[[0,"Absolute",0,0,false]]},{"slot":"unloaded","size":1,"relocs":[[0,"Absolute",1,0,false]]}],"symbols":[{"at":["sec",1,0]},{"at":["sec",0,0]}]}]]}
1 0 1 => 1 0 1
1 => 1 0 1, 1
"#;

/// Adds a unit.
fn add_unit(line: &mut String, unit: &Unit) -> Result<(), AllocError> {
    match *unit {
        Unit::Sym(symbol) => {
            let number = symbol.as_u32();
            write!(line, "{number}")
        }
        Unit::Sec(FileId { group, file }, index) => write!(line, "{group} {file} {index}"),
    }
}

/// Adds the units of a path.
fn add_path(line: &mut String, path: &[Unit]) -> Result<(), AllocError> {
    for unit in path {
        if !line.is_empty() {
            line.push_str(", ")?;
        }
        add_unit(line, unit)?;
    }
    Ok(())
}

/// Adds what is told of a unit.
fn add_told(
    line: &mut String,
    told: &Result<Option<Vec<Unit>>, ExplainError>,
) -> Result<(), AllocError> {
    match told {
        Ok(Some(path)) => add_path(line, path.as_slice()),
        Ok(None) => line.push_str("not reached"),
        Err(ExplainError::NoSuchUnit) => line.push_str("no such unit"),
        Err(ExplainError::NoMemory) => line.push_str("no memory"),
    }
}

/// Adds the path that is shown to the first of these units.
pub fn add_shown(
    alloc: Global,
    line: &mut String,
    link: &LinkInput,
    units: &[Unit],
) -> Result<(), AllocError>
    requires { IsWellFormed link.now }
{
    match units.first() {
        Some(unit) => {
            let told = explain(alloc, link, *unit);
            add_told(line, &told)
        }
        None => line.push_str("no unit"),
    }
}

#[test]
fn shortest_paths_are_shown(rt: HostRuntime) -> Result<(), Fail> {
    expect_rows(&rt, rt.alloc(), Asked::Paths(OfPaths::Shown), SHOWN)
}
