//! Why sections are kept, as runs tell it.

use crate::rows::{Asked, expect_rows};
use std::test::Fail;

/// What can't be read; links that are past a limit, one of which breaks a rule too, and one that breaks a rule; one of which only the layout is refused; a section that refers to a symbol at a second
/// one, and a third that isn't reached; the members of a section group.
const EXPLAINED: &str = r#"
why 1 0 0:  => ends "3 not JSON" alike true
why 1 0 0: {} => ends "3 not a link description: /plan" alike true
why 1 0 0: {"plan":{"page":1,"segments":[«65 of {"kind":"load"}»]},"groups":[[{"kind":"prelude"}]]} => ends "1 too many segments: 65, limit 64" alike true
why 1 0 0: {"plan":{"page":3,"segments":[«66 of {"kind":"tls"}»]},"groups":[[{"kind":"prelude"}]]} => ends "1 too many segments: 66, limit 64" alike true
why 1 0 9: {"plan":{"page":3},"groups":[[{"kind":"prelude"}]]} => ends "1 bad link: rule 2, plan" alike true
layout 0: {"plan":{"page":1,"base":["num",1],"sections":[{"attrs":1,"parts":[[1,false]]}],"segments":[{"kind":"load"}],"events":[["seg",0],["sec",0],["endseg",0]]},"groups":[[{"kind":"prelude"}],[{"kind":"object","sections":[{"slot":"must","size":18446744073709551615}]}]]} => ends "1 address overflow: event 1" alike true
why 1 0 0: {"plan":{"page":1,"base":["num",1],"sections":[{"attrs":1,"parts":[[1,false]]}],"segments":[{"kind":"load"}],"events":[["seg",0],["sec",0],["endseg",0]]},"groups":[[{"kind":"prelude"}],[{"kind":"object","sections":[{"slot":"must","size":18446744073709551615}]}]]} => ends "0 why 1 0 0\nsection 1 0 0\nend" alike true
@ ...: {"plan":{"page":1,"sections":[{"parts":[[1,false]]}],"events":[["sec",0]]},"groups":[[{"kind":"prelude"}],[{"kind":"object","sections":[{"slot":"must","size":1,"relocs":[[0,"Absolute",0,0,false]]},{"slot":"unloaded","size":1},{"slot":"unloaded","size":1}],"symbols":[{"at":["sec",1,0]}]}]]}
why 1 0 0 => ends "0 why 1 0 0\nsection 1 0 0\nend" alike true
why 1 0 1 => ends "0 why 1 0 1\nsection 1 0 0\nsymbol 0\nsection 1 0 1\nend" alike true
why 1 0 2 => ends "0 why 1 0 2\nnot reached\nend" alike true
why 1 0 3 => ends "1 no such section: 1 0 3" alike true
why 0 0 0 => ends "1 no such section: 0 0 0" alike true
why 1 1 0 => ends "1 no such section: 1 1 0" alike true
why 2 0 1 => ends "1 no such section: 2 0 1" alike true
why 4294967295 4294967295 4294967295 => ends "1 no such section: 4294967295 4294967295 4294967295" alike true
@ ...: {"plan":{"page":1,"sections":[{"parts":[[1,false]]}],"events":[["sec",0]]},"groups":[[{"kind":"prelude"}],[{"kind":"object","sections":[{"slot":"must","size":1,"group":0},{"slot":"unloaded","size":1,"group":0},{"slot":"unloaded","size":1,"relocs":[[0,"Absolute",0,0,false]],"group":0},{"slot":"unloaded","size":1}],"symbols":[{"at":["sec",3,0]}]}]]}
why 1 0 2 => ends "0 why 1 0 2\nsection 1 0 0\nsection 1 0 2\nend" alike true
why 1 0 3 => ends "0 why 1 0 3\nsection 1 0 0\nsection 1 0 2\nsymbol 0\nsection 1 0 3\nend" alike true
"#;

#[test]
fn runs_tell_why_sections_are_kept(rt: HostRuntime) -> Result<(), Fail> {
    expect_rows(&rt, rt.alloc(), Asked::Ends, EXPLAINED)
}
