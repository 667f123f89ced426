//! How deep a text may nest.

use crate::rows::{Asked, expect_rows};
use std::test::Fail;

/// Values of no meaning, and expressions that nest at the left and at the right. The description itself is one level, and
/// the plan another.
const NESTED: &str = r#"
@ {"plan":{"page":1},"x":...}
«126 times [»«126 times ]» => read
«127 times [»«127 times ]» => not JSON
@ {"plan":{"page":1,"base":...}}
«120 times ["add",»["dot"]«120 times ,["dot"]]» => read
«124 times ["add",»["dot"]«124 times ,["dot"]]» => read
«125 times ["add",»["dot"]«125 times ,["dot"]]» => not JSON
«124 times ["add",["dot"],»["dot"]«124 times ]» => read
«125 times ["add",["dot"],»["dot"]«125 times ]» => not JSON
"#;

#[test]
fn nests_up_to_127_levels(rt: HostRuntime) -> Result<(), Fail> {
    expect_rows(&rt, rt.alloc(), Asked::Outcome, NESTED)
}
