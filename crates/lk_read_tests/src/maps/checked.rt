//! What is told of maps.

use super::rows::OfMaps;
use lk_test_rows::{Failed, expect_rows};

/// Ends at 2^64 - 1 and past it.
const ENDS: &str = "
8=segment 0 mem 0x1000 18446744073709547519 file 0x0 15 align 16 => ok 3 1
8=segment 0 mem 0x1000 18446744073709547520 file 0x0 15 align 16 => overflow 8
8=segment 0 mem 0x1000 32 file 0x1 18446744073709551615 align 16 => overflow 8
4=section 2 index 2 mem 0xffffffffffffffff 0 file 0xffffffffffffffff 0 align 16 lma 0x1010 attrs 17 => ok 3 1
4=section 2 index 2 mem 0xfffffffffffffffe 1 file 0xf 0 align 16 lma 0x1010 attrs 17 => ok 3 1
4=section 2 index 2 mem 0xffffffffffffffff 1 file 0xf 0 align 16 lma 0x1010 attrs 17 => overflow 4
4=section 2 index 2 mem 0x0 0 file 0xffffffffffffffff 1 align 16 lma 0x1010 attrs 0 => overflow 4
3=section 1 index 1 mem 0x1004 7 file 0x8 7 align 1 lma 0x1008 attrs 1;8=segment 0 mem 0x1000 18446744073709547520 file 0x0 15 align 16 => overflow 8
2=section 0 index 0 mem 0xffffffffffffffff 1 file 0x0 8 align 8 lma 0x0 attrs 0;8=segment 0 mem 0x1000 18446744073709547520 file 0x0 15 align 16 => overflow 2
";

/// Overlaps in memory and in the file, and what doesn't count there.
const OVERLAPS: &str = "
3=section 1 index 1 mem 0x1008 7 file 0x7 7 align 1 lma 0x1008 attrs 1 => file 2 3
3=section 1 index 1 mem 0x1004 7 file 0x8 7 align 1 lma 0x1008 attrs 1 => memory 2 3
3=section 1 index 1 mem 0x1007 7 file 0x7 7 align 1 lma 0x1008 attrs 1 => memory 2 3
3=section 1 index 1 mem 0x1000 7 file 0x8 7 align 1 lma 0x1008 attrs 1 => memory 2 3
3=section 1 index 1 mem 0x1008 7 file 0x0 7 align 1 lma 0x1008 attrs 1 => file 2 3
3=section 1 index 1 mem 0x1008 0 file 0x0 7 align 1 lma 0x1008 attrs 0 => file 2 3
3=section 1 index 1 mem 0x1000 7 file 0x8 7 align 1 lma 0x0 attrs 0 => ok 3 1
3=section 1 index 1 mem 0x1000 7 file 0x8 7 align 1 lma 0x0 attrs 30 => ok 3 1
4=section 2 index 2 mem 0x1004 0 file 0x4 0 align 16 lma 0x1010 attrs 1 => ok 3 1
4=section 2 index 2 mem 0x1000 16 file 0xf 0 align 16 lma 0x1010 attrs 25 => ok 3 1
4=section 2 index 2 mem 0x1000 16 file 0xf 0 align 16 lma 0x1010 attrs 9 => memory 2 4
4=section 2 index 2 mem 0x1000 16 file 0xf 0 align 16 lma 0x1010 attrs 17 => memory 2 4
4=section 2 index 2 mem 0xff8 9 file 0xf 0 align 16 lma 0x1010 attrs 17 => memory 2 4
4=section 2 index 2 mem 0xff8 8 file 0xf 0 align 16 lma 0x1010 attrs 17 => ok 3 1
2=section 0 index 0 mem 0x1000 32 file 0x0 8 align 8 lma 0x1000 attrs 1 => memory 2 3
2=section 0 index 0 mem 0x2000 8 file 0x0 8 align 8 lma 0x1000 attrs 1;4=section 2 index 2 mem 0x100a 16 file 0xf 0 align 16 lma 0x1010 attrs 17 => memory 3 4
2=section 0 index 0 mem 0x100c 8 file 0x0 8 align 8 lma 0x1000 attrs 1;4=section 2 index 2 mem 0x100d 16 file 0xf 0 align 16 lma 0x1010 attrs 17 => memory 2 3
2=section 0 index 0 mem 0x1009 1 file 0x0 8 align 8 lma 0x1000 attrs 1;4=section 2 index 2 mem 0x1009 16 file 0xf 0 align 16 lma 0x1010 attrs 17 => memory 2 3
4=section 2 index 2 mem 0x0 0 file 0x0 1 align 16 lma 0x0 attrs 0|section 3 index - mem 0x0 0 file 0x8 1 align 1 lma 0x0 attrs 0 => file 2 4
";

/// Sections that no segment holds.
const HELD: &str = "
3=section 1 index 1 mem 0x1009 7 file 0x8 7 align 1 lma 0x1008 attrs 1 => outside 3
8= => outside 2
8=segment 0 mem 0x1000 32 file 0x0 14 align 16 => outside 3
8=segment 0 mem 0x1000 14 file 0x0 15 align 16 => outside 3
8=segment 0 mem 0x1001 32 file 0x1 15 align 16 => outside 2
8=segment 0 mem 0x1000 32 file 0x100 15 align 16 => outside 2
8=segment 0 mem 0x0 8192 file 0x0 8192 align 16 => outside 2
8=segment 0 mem 0x1000 15 file 0x0 15 align 16 => ok 3 1
8=segment 0 mem 0xff8 23 file 0x0 15 align 16 => outside 2
8=segment 0 mem 0x1000 8 file 0x0 8 align 16|segment 1 mem 0x1008 24 file 0x8 7 align 1 => ok 3 2
8=segment 0 mem 0x1008 24 file 0x8 7 align 16|segment 1 mem 0x1000 8 file 0x0 8 align 1 => ok 3 2
8=segment 0 mem 0x1000 256 file 0x0 8 align 16|segment 1 mem 0x1000 15 file 0x0 15 align 1 => ok 3 2
8=segment 0 mem 0x1000 256 file 0x0 8 align 16|segment 1 mem 0x1000 14 file 0x0 15 align 1 => outside 3
8=segment 0 mem 0x1000 8 file 0x0 8 align 16|segment 1 mem 0x1000 7 file 0x0 15 align 1|segment 2 mem 0x1001 31 file 0x1 15 align 1 => ok 3 3
8=segment 0 mem 0x1000 8 file 0x0 8 align 16|segment 1 mem 0x1009 7 file 0x9 7 align 1 => outside 3
3=section 1 index 1 mem 0x1008 7 file 0x8 0 align 1 lma 0x1008 attrs 1;8=segment 0 mem 0x1000 8 file 0x0 8 align 16 => ok 3 1
3=section 1 index 1 mem 0x1008 0 file 0x8 7 align 1 lma 0x1008 attrs 1;8=segment 0 mem 0x1000 8 file 0x0 15 align 16 => ok 3 1
3=section 1 index 1 mem 0x1009 0 file 0x9 7 align 1 lma 0x1008 attrs 1;8=segment 0 mem 0x1000 8 file 0x0 16 align 16 => outside 3
2=section 0 index 0 mem 0x0 8 file 0x1000 8 align 8 lma 0x0 attrs 1;3=section 1 index 1 mem 0x2000 7 file 0x8 7 align 1 lma 0x0 attrs 1;8=segment 0 mem 0x0 8 file 0x1000 8 align 1|segment 1 mem 0x2000 7 file 0x8 7 align 1 => ok 3 2
2=section 0 index 0 mem 0x0 8 file 0x1000 8 align 8 lma 0x0 attrs 1;3=section 1 index 1 mem 0x2000 7 file 0x8 7 align 1 lma 0x0 attrs 1;8=segment 0 mem 0x2000 7 file 0x8 7 align 1 => outside 2
2=section 0 index 0 mem 0x0 8 file 0x10 8 align 8 lma 0x0 attrs 1;8=segment 0 mem 0xfffffffffffffff0 15 file 0x0 32 align 1|segment 1 mem 0x1008 7 file 0x8 7 align 1 => outside 2
2=section 0 index 0 mem 0x1004 8 file 0x4 8 align 8 lma 0x0 attrs 1;3=section 1 index 1 mem 0x10 7 file 0x10 7 align 1 lma 0x0 attrs 1;8= => outside 2
2=section 0 index 0 mem 0x20 8 file 0x20 8 align 8 lma 0x0 attrs 1;3=section 1 index 1 mem 0x10 7 file 0x10 7 align 1 lma 0x0 attrs 1;8=segment 0 mem 0x10 7 file 0x10 7 align 1 => outside 2
";

#[test]
fn ends_are_below_the_last_address(rt: HostRuntime) -> Result<(), Failed> {
    expect_rows(&rt, rt.alloc(), &OfMaps, ENDS)
}

#[test]
fn sections_overlap(rt: HostRuntime) -> Result<(), Failed> {
    expect_rows(&rt, rt.alloc(), &OfMaps, OVERLAPS)
}

#[test]
fn segments_hold_sections(rt: HostRuntime) -> Result<(), Failed> {
    expect_rows(&rt, rt.alloc(), &OfMaps, HELD)
}
