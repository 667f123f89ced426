//! Items of fixed lists, and words, with values that are right and wrong there.

use crate::rows::{Asked, expect_rows};
use std::test::Fail;

/// Items of fixed lists, and words, with values that are right and wrong there.
const ITEMS: &str = r#"
@ {"plan":{"page":1},"groups":[[{"kind":"object","sections":[{"slot":"must","relocs":[[0,"Got",0,...,false]]}]}]]}
-9223372036854775808 => read
-1 => read
0 => read
9223372036854775807 => read
-9223372036854775809 => at /groups/0/0/sections/0/relocs/0/3
9223372036854775808 => at /groups/0/0/sections/0/relocs/0/3
-0 => at /groups/0/0/sections/0/relocs/0/3
1.0 => at /groups/0/0/sections/0/relocs/0/3
"0" => at /groups/0/0/sections/0/relocs/0/3
null => at /groups/0/0/sections/0/relocs/0/3
@ {"plan":{"page":1},"groups":[[{"kind":"object","sections":[{"slot":"must","relocs":[[0,...,0,0,false]]}]}]]}
"MachoAddition" => read
"Absolute" => read
"absolute" => at /groups/0/0/sections/0/relocs/0/1
"Direct" => at /groups/0/0/sections/0/relocs/0/1
"" => at /groups/0/0/sections/0/relocs/0/1
"Absolute\u0000" => at /groups/0/0/sections/0/relocs/0/1
0 => at /groups/0/0/sections/0/relocs/0/1
null => at /groups/0/0/sections/0/relocs/0/1
@ {"plan":{"page":1},"groups":[[{"kind":"dynamic","symbols":[{"at":[...]}]}]]}
"dyn" => read
"undef" => read
"tlsend" => read
"dynamic" => at /groups/0/0/symbols/0/at/0
"undefine" => at /groups/0/0/symbols/0/at/0
"Undef" => at /groups/0/0/symbols/0/at/0
"" => at /groups/0/0/symbols/0/at/0
0 => at /groups/0/0/symbols/0/at/0
null => at /groups/0/0/symbols/0/at/0
@ {"plan":{"page":1,"events":[[...,0]]}}
"seg" => read
"sec" => read
"endseg" => read
"Seg" => at /plan/events/0/0
"segment" => at /plan/events/0/0
"" => at /plan/events/0/0
0 => at /plan/events/0/0
null => at /plan/events/0/0
@ {"plan":{"page":1,"base":[...]}}
"dot" => read
"headers" => read
"." => at /plan/base/0
"Dot" => at /plan/base/0
"" => at /plan/base/0
0 => at /plan/base/0
null => at /plan/base/0
["dot"] => at /plan/base/0
@ {"plan":{"page":1},"groups":[[{"kind":"object","sections":[{"slot":...}]}]]}
"must" => read
"discard" => read
"must_load" => at /groups/0/0/sections/0/slot
"Must" => at /groups/0/0/sections/0/slot
"" => at /groups/0/0/sections/0/slot
0 => at /groups/0/0/sections/0/slot
null => at /groups/0/0/sections/0/slot
"#;

#[test]
fn items_and_words(rt: HostRuntime) -> Result<(), Fail> {
    expect_rows(&rt, rt.alloc(), Asked::Outcome, ITEMS)
}
