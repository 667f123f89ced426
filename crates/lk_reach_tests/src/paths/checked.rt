//! Which lists of units are paths.

ghost use Rattle.lk_link.specs.WellFormed.{IsWellFormed};

use crate::paths::OfPaths;
use crate::rows::{Asked, expect_rows};
use lk_explain::{Unit, check_path};
use lk_link::LinkInput;
use std::alloc::AllocError;
use std::test::Fail;

/// Of a section that refers to a symbol at a second one; of one that goes on from there to a third, with a symbol that doesn't stand
/// for itself; of the members of a section group, of which the last refers to a section outside. The first fault counts, and of
/// two that there is no such unit.
const CHECKED: &str = r#"
@ ...: {"plan":{"page":1,"sections":[{"parts":[[1,false]]}],"events":[["sec",0]]},"groups":[[{"kind":"prelude"}],[{"kind":"object","sections":[{"slot":"must","size":1,"relocs":[[0,"Absolute",0,0,false]]},{"slot":"unloaded","size":1},{"slot":"unloaded","size":1}],"symbols":[{"at":["sec",1,0]}]}]]}
 => Empty
0, 1 0 1 => NotRoot
1 0 0, 1 0 1 => NoAsk { at: 1 }
9 => NoSuchUnit { at: 0 }
@ ...: {"plan":{"page":1,"sections":[{"parts":[[1,false]]}],"events":[["sec",0]]},"groups":[[{"kind":"prelude"}],[{"kind":"object","sections":[{"slot":"must","size":1,"relocs":[[0,"Absolute",0,0,false]]},{"slot":"unloaded","size":1,"relocs":[[0,"Absolute",1,0,false]]},{"slot":"unloaded","size":1}],"symbols":[{"at":["sec",1,0]},{"at":["sec",2,0]},{"at":["undef"],"def":0}]}]]}
1 0 0 | 1 0 0, 0 | 1 0 0, 0, 1 0 1, 1, 1 0 2 => ok
2 | 1 0 3 | 0 0 0 | 1 1 0 | 3 0 0 | 2, 1 0 0 => NoSuchUnit { at: 0 }
1 | 1 0 1 | 0, 9 => NotRoot
1 0 0, 2 | 1 0 0, 9 => NoSuchUnit { at: 1 }
1 0 0, 1 | 1 0 0, 1 0 0 | 1 0 0, 1 0 2, 9 => NoAsk { at: 1 }
1 0 0, 0, 1 0 0 | 1 0 0, 0, 1 => NoAsk { at: 2 }
1 0 0, 0, 1 0 1, 1 0 9 => NoSuchUnit { at: 3 }
@ ...: {"plan":{"page":1,"sections":[{"parts":[[1,false]]}],"events":[["sec",0]]},"groups":[[{"kind":"prelude"}],[{"kind":"object","sections":[{"slot":"must","size":1,"group":0},{"slot":"unloaded","size":1,"group":0},{"slot":"unloaded","size":1,"relocs":[[0,"Absolute",0,0,false]],"group":0},{"slot":"unloaded","size":1}],"symbols":[{"at":["sec",3,0]}]}]]}
1 0 0, 1 0 1, 1 0 2, 1 0 0, 1 0 2, 0, 1 0 3 => ok
1 0 0, 1 0 0 => NoAsk { at: 1 }
"#;

/// Adds whether units are a path.
pub fn add_checked(line: &mut String, link: &LinkInput, units: &[Unit]) -> Result<(), AllocError>
    requires { IsWellFormed link.now }
{
    match check_path(link, units) {
        Ok(()) => line.push_str("ok"),
        Err(fault) => write!(line, "{fault:?}"),
    }
}

#[test]
fn paths_are_told_from_others(rt: HostRuntime) -> Result<(), Fail> {
    expect_rows(&rt, rt.alloc(), Asked::Paths(OfPaths::Checked), CHECKED)
}
