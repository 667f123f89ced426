//! Maps, as runs check them.

use crate::rows::{Asked, expect_rows};
use std::test::Fail;

/// Texts that are no map; maps that are good, of which the first has nothing in it; the report of three sections among them; and each fault of one.
const CHECKED: &str = r#"
check:  => ends "3 not a map: line 1" alike true
check: {} => ends "3 not a map: line 1" alike true
check: layout/entry -/end => ends "3 not a map: line 3" alike true
check: layout/end/ => ends "3 not a map: line 2" alike true
check: layout/entry -/end/ => ends "0 map ok: 0 sections, 0 segments" alike true
check: layout/section 0 index 0 mem 0x1000 8 file 0x0 8 align 8 lma 0x1000 attrs 1/section 1 index 1 mem 0x1008 7 file 0x8 7 align 1 lma 0x1008 attrs 1/section 2 index 2 mem 0x1010 16 file 0xf 0 align 16 lma 0x1010 attrs 17/part 0 mem 0x1000 8 file 0x0 8 align 8/part 1 mem 0x1008 7 file 0x8 7 align 1/part 2 mem 0x1010 16 file 0xf 0 align 16/segment 0 mem 0x1000 32 file 0x0 15 align 16/live 1 0 0 0x1000 8/live 1 0 1 0x1008 7/live 1 0 2 0x1010 16/entry -/end/ => ends "0 map ok: 3 sections, 1 segments" alike true
check: layout/section 0 index 0 mem 0x1000 8 file 0x0 8 align 8 lma 0x1000 attrs 1/section 1 index 1 mem 0x1008 7 file 0x8 7 align 1 lma 0x1008 attrs 1/segment 0 mem 0x1000 32 file 0x0 15 align 16/entry -/end/ => ends "0 map ok: 2 sections, 1 segments" alike true
check: layout/section 0 index 0 mem 0x1000 8 file 0x0 8 align 8 lma 0x1000 attrs 1/section 1 index 1 mem 0x1008 7 file 0x8 7 align 1 lma 0x1008 attrs 1/segment 0 mem 0x1000 18446744073709547520 file 0x0 15 align 16/entry -/end/ => ends "1 map overflow: line 4" alike true
check: layout/section 0 index 0 mem 0x1000 8 file 0x0 8 align 8 lma 0x1000 attrs 1/section 1 index 1 mem 0x1004 7 file 0x8 7 align 1 lma 0x1008 attrs 1/segment 0 mem 0x1000 32 file 0x0 15 align 16/entry -/end/ => ends "1 memory overlap: lines 2 and 3" alike true
check: layout/section 0 index 0 mem 0x1000 8 file 0x0 8 align 8 lma 0x1000 attrs 1/section 1 index 1 mem 0x1008 7 file 0x7 7 align 1 lma 0x1008 attrs 1/segment 0 mem 0x1000 32 file 0x0 15 align 16/entry -/end/ => ends "1 file overlap: lines 2 and 3" alike true
check: layout/section 0 index 0 mem 0x1000 8 file 0x0 8 align 8 lma 0x1000 attrs 1/section 1 index 1 mem 0x1009 7 file 0x8 7 align 1 lma 0x1008 attrs 1/segment 0 mem 0x1000 32 file 0x0 15 align 16/entry -/end/ => ends "1 line 3 is in no segment" alike true
check: layout/section 0 index 0 mem 0x1000 8 file 0x0 8 align 8 lma 0x1000 attrs 1/section 1 index 1 mem 0x1008 7 file 0x8 7 align 1 lma 0x1008 attrs 1/entry -/end/ => ends "1 line 2 is in no segment" alike true
"#;

#[test]
fn runs_check_maps(rt: HostRuntime) -> Result<(), Fail> {
    expect_rows(&rt, rt.alloc(), Asked::Ends, CHECKED)
}
