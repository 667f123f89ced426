//! Which texts are maps.

use super::rows::OfMaps;
use lk_test_rows::{Failed, expect_rows};

/// The report as it is; texts that stop early or go on behind the end; kinds that go back, stand twice or are missing.
const KINDS: &str = "
 => ok 3 1
13= => not 13
nothing => not 1
1=%0a => not 1
13=end~ => not 13
12=entry -~;13= => not 12
1=layout~;2=;3=;4=;5=;6=;7=;8=;9=;10=;11=;12=;13= => not 1
13=end| => not 14
13=end|x~ => not 14
13=end|end => not 14
9=|live 1 0 0 0x1000 8 => not 9
2=part 0 mem 0x1000 8 file 0x0 8 align 8 => not 3
5=live 1 0 0 0x1000 8 => not 6
9=segment 1 mem 0x0 0 file 0x0 0 align 1|part 3 mem 0x0 0 file 0x0 0 align 1 => not 10
12=entry -|live 1 0 0 0x1000 8 => not 13
1=layout|layout => not 2
1= => not 1
1=end => not 1
1=layout|end => not 2
12=entry -|entry - => not 13
12=entry 0x0|entry not loaded => not 13
12= => not 12
2=;3=;4=;5=;6=;7=;8=;9=;10=;11= => ok 0 0
2=;3=;4=;5=;6=;7=;8=;9=;10=;11=;12=entry not an address => ok 0 0
";

/// Every kind of line; `-` where it may stand, and where not.
const LINES: &str = "
12=single 1 0 3 4|merged 0 5 2 3 7 0x1000|piece 0 0x1000 4|block 0 1 0|thunk 0 5 0x40|symbol 0 0x10 5 got 0x8 plt 0x9 dyn 7|entry 0x1000 => ok 3 1
12=thunk 0 5 -|symbol 0 0x10 5 got - plt - dyn -|entry not loaded => ok 3 1
12=entry not an address => ok 3 1
2=section 0 index - mem 0x1000 8 file 0x0 8 align 8 lma 0x1000 attrs 1 => ok 3 1
2=section 7 index 7 mem 0x1000 8 file 0x0 8 align 0 lma 0x0 attrs 1;3=section 7 index 7 mem 0x1008 7 file 0x8 7 align 0 lma 0x0 attrs 1 => ok 3 1
2=section - index 0 mem 0x1000 8 file 0x0 8 align 8 lma 0x1000 attrs 1 => not 2
2=section 0 index 0 mem - 8 file 0x0 8 align 8 lma 0x1000 attrs 1 => not 2
2=section 0 index 0 mem 0x1000 - file 0x0 8 align 8 lma 0x1000 attrs 1 => not 2
2=section 0 index 0 mem 0x1000 8 file - 8 align 8 lma 0x1000 attrs 1 => not 2
2=section 0 index 0 mem 0x1000 8 file 0x0 8 align - lma 0x1000 attrs 1 => not 2
2=section 0 index 0 mem 0x1000 8 file 0x0 8 align 8 lma - attrs 1 => not 2
2=section 0 index 0 mem 0x1000 8 file 0x0 8 align 8 lma 0x1000 attrs - => not 2
8=segment - mem 0x1000 32 file 0x0 15 align 16 => not 8
12=single 1 0 3 -|entry - => not 12
12=merged 0 5 2 3 7 -|entry - => not 12
12=piece 0 - 4|entry - => not 12
12=block 0 - 0|entry - => not 12
12=thunk 0 - 0x40|entry - => not 12
12=symbol 0 - 5 got - plt - dyn -|entry - => not 12
12=symbol 0 0x10 - got - plt - dyn -|entry - => not 12
12=symbol 0 0x10 5 got 8 plt - dyn -|entry - => not 12
12=symbol 0 0x10 5 got - plt - dyn 0x7|entry - => not 12
12=entry not => not 12
12=entry not found => not 12
12=entry 16 => not 12
12=entry => not 12
2=sections 0 index 0 mem 0x1000 8 file 0x0 8 align 8 lma 0x1000 attrs 1 => not 2
2=section 0 index 0 mem 0x1000 8 file 0x0 8 align 8 lma 0x1000 attrs => not 2
2=section 0 index 0 mem 0x1000 8 file 0x0 8 align 8 lma 0x1000 attrs 1 1 => not 2
2=section 0 index 0 mem 0x1000 8 file 0x0 8 lma 0x1000 align 8 attrs 1 => not 2
";

/// Numbers, blanks and bytes that aren't as they are written.
const NUMBERS: &str = "
9=live 18446744073709551615 0 0 0xffffffffffffffff 8 => ok 3 1
9=live 18446744073709551616 0 0 0x1000 8 => not 9
9=live 1 0 0 0x10000000000000000 8 => not 9
9=live 99999999999999999999999999999999999999999 0 0 0x1000 8 => not 9
9=live 01 0 0 0x1000 8 => not 9
9=live 1 00 0 0x1000 8 => not 9
9=live 1 0 0 0x01000 8 => not 9
9=live 1 0 0 0x00 8 => not 9
9=live 1 0 0 0x 8 => not 9
9=live 1 0 0 1000 8 => not 9
9=live 1 0 0 x1000 8 => not 9
9=live 1 0 0 0X1000 8 => not 9
9=live 1 0 0 0x100A 8 => not 9
9=live 1 0 0 0x100a 8 => ok 3 1
9=live 1 0 0 0x100g 8 => not 9
9=live 1 0 0 0x1000 a => not 9
9=live 0x1 0 0 0x1000 8 => not 9
9=live +1 0 0 0x1000 8 => not 9
9=live 1 0 0 0x-1 8 => not 9
9=live 1 0 0 0x1000 8.0 => not 9
9=live 1 0 0 0x1000 8%20 => not 9
9=%20live 1 0 0 0x1000 8 => not 9
9=live  1 0 0 0x1000 8 => not 9
9=live 1 0 0  0x1000 8 => not 9
9=live%091 0 0 0x1000 8 => not 9
9=live 1 0 0 0x1000 8%0d => not 9
9=live 1 0 0 0x1000 %ff => not 9
9=%ff%fe%00 => not 9
9=live 1 0 0 0x1000 8%00 => not 9
9=Live 1 0 0 0x1000 8 => not 9
9=live => not 9
9=%20 => not 9
13=end%20 => not 13
1=%ef%bb%bflayout => not 1
";

/// Lines behind one of their form: these are read where they stand, or are cut off where they don't fit.
const ALIKE: &str = "
12=single 1 0 3 4|single 1 1 3 4|merged 0 5 2 3 7 0x1000|merged 0 6 2 3 7 0x0|piece 0 0x1000 4|piece 1 0x1004 4|block 0 1 0|block 1 1 1|entry - => ok 3 1
12=thunk 0 5 0x40|thunk 1 5 -|thunk 2 5 0x48|symbol 0 0x10 5 got 0x8 plt 0x9 dyn 7|symbol 1 0x10 5 got - plt - dyn -|symbol 2 0x0 0 got - plt 0x8 dyn 8|entry - => ok 3 1
12=segment 1 mem 0x0 0 file 0x0 0 align 1|entry - => not 12
7=|segment 1 mem 0x0 0 file 0x0 0 align 1|segment 2 mem 0x0 0 file 0x0 0 align 1 => not 7
7=segment 1 mem 0x0 0 file 0x0 0 align 1|segment 2 mem 0x0 0 file 0x0 0 align 1 => ok 3 3
3=section 1 index - mem 0x1008 7 file 0x8 7 align 1 lma 0x1008 attrs 1 => ok 3 1
3=section - index 1 mem 0x1008 7 file 0x8 7 align 1 lma 0x1008 attrs 1 => not 3
3=section 1 index 1 mem 0x1008 7 file 0x8 7 align 1 lma 0x1008 attrs - => not 3
3=section 1 index 1 mem 0x1008 7 file 0x8 7 align 1 lma 0x1008 attrs 1 1 => not 3
3=section 1 index 1 mem 0x1008 7 file 0x8 7 align 1 lma 0x1008 attrs => not 3
3=section 1 index 1 mem 0x1008 7 file 0x8 7 lma 0x1008 align 1 attrs 1 => not 3
3=section 1 index 1 mem 0x1008 7 file 0x8 7 align 1 lma 1008 attrs 1 => not 3
3=segment 1 mem 0x1008 7 file 0x8 7 align 1 => not 4
6=part 1 mem 0x1008 7 file 0x8 7 align - => not 6
6=part 1 mem 0x1008 7 file 0x8 7 => not 6
10=live 18446744073709551615 0 0 0xffffffffffffffff 9999999999999999999 => ok 3 1
10=live 18446744073709551616 0 0 0x1000 8 => not 10
10=live 1 0 0 0x10000000000000000 8 => not 10
10=live 01 0 0 0x1000 8 => not 10
10=live 1 0 00 0x1000 8 => not 10
10=live 1 0 0 0x01000 8 => not 10
10=live 1 0 0 0x 8 => not 10
10=live 1 0 0 1000 8 => not 10
10=live 1 0 0 0x100A 8 => not 10
10=live 1 0 0 0x100g 8 => not 10
10=live 1 0 0 0x1000 - => not 10
10=live 1 0 0 0x1000 => not 10
10=live 1 0 0 0x1000 8 8 => not 10
10=live 1 0 0 0x1000 8%20 => not 10
10=live 1 0 0 0x1000 8%0d => not 10
10=live 1 0 0 0x1000 8%00 => not 10
10=live  1 0 0 0x1000 8 => not 10
10=%20live 1 0 0 0x1000 8 => not 10
10=live%091 0 0 0x1000 8 => not 10
10=lives 1 0 0 0x1000 8 => not 10
10=liv 1 0 0 0x1000 8 => not 10
10=live => not 10
10=%20 => not 10
10=live 1 0 1 0x1008 7~ => not 10
11=live 1 0 2 0x1010 16~;12=;13= => not 11
11=live 1 0 2 0x1010 16;12=;13= => not 12
12=thunk 0 5 0x40|thunk 0 5 40|entry - => not 13
12=symbol 0 0x10 5 got - plt - dyn -|symbol 0 0x10 5 got - plt - dyn 0x7|entry - => not 13
12=symbol 0 0x10 5 got - plt - dyn -|symbol 0 - 5 got - plt - dyn 7|entry - => not 13
12=symbol 0 0x10 5 got - plt - dyn -|symbol 0 0x10 5 got -- plt - dyn 7|entry - => not 13
12=merged 0 5 2 3 7 0x1000|merged 0 5 2 3 7 -|entry - => not 13
12=entry 0x1000|end => not 14
";

#[test]
fn kinds_stand_in_their_order(rt: HostRuntime) -> Result<(), Failed> {
    expect_rows(&rt, rt.alloc(), &OfMaps, KINDS)
}

#[test]
fn lines_have_their_fields(rt: HostRuntime) -> Result<(), Failed> {
    expect_rows(&rt, rt.alloc(), &OfMaps, LINES)
}

#[test]
fn numbers_are_as_they_are_written(rt: HostRuntime) -> Result<(), Failed> {
    expect_rows(&rt, rt.alloc(), &OfMaps, NUMBERS)
}

#[test]
fn lines_alike_are_read_where_they_stand(rt: HostRuntime) -> Result<(), Failed> {
    expect_rows(&rt, rt.alloc(), &OfMaps, ALIKE)
}
