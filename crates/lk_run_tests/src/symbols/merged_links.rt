//! Runs over links in which something is merged: what is kept, where it stands, the values of symbols there, and refusals.

use crate::rows::{Asked, expect_rows};
use crate::runs::expect_reports;
use std::test::Fail;

/// What stands behind the prelude's group in a description of one output section, with its report; and whole descriptions.
const REPORTED: &str =
    r#"@ {"plan":{"page":16,"base":["num",4096],"sections":[{"attrs":1,"parts":[[1,false]]}],"segments":[{"kind":"load"}],"events":[["seg",0],["sec",0],["endseg",0]]},"groups":[[{"kind":"prelude"}],...}

# Two strings in three pieces, bucket by bucket; offsets 0 and 4 are of equal strings.
[{"kind":"object","symbols":[{"name":"x","at":["sec",1,0]},{"name":"y","at":["sec",1,4]},{"name":"z","at":["sec",1,3]}],"sections":[{"slot":"must","size":8,"relocs":[[0,"Absolute",0,0,false],[0,"Absolute",1,0,false],[0,"Absolute",2,-1,false]]},{"slot":"merge","strings":true,"data":"610062006100"}]}]]
0 layout
section 0 index 0 mem 0x1000 12 file 0x0 12 align 1 lma 0x1000 attrs 1
part 0 mem 0x1000 12 file 0x0 12 align 1
segment 0 mem 0x1000 12 file 0x0 12 align 1
live 1 0 0 0x1004 8
merged 0 4 2 3 6 0x1000
piece 0 0x1000 2
piece 0 0x1002 2
symbol 0 0x1000 64 got - plt - dyn -
symbol 1 0x1000 64 got - plt - dyn -
symbol 2 0x1003 64 got - plt - dyn -
entry -
end

# The string of the later bucket comes first in the data, and stands last.
[{"kind":"object","symbols":[{"name":"b","at":["sec",1,0]},{"name":"a","at":["sec",1,2]}],"sections":[{"slot":"must","size":1,"relocs":[[0,"Absolute",0,0,false],[0,"Absolute",1,0,false]]},{"slot":"merge","strings":true,"data":"62006100"}]}]]
0 layout
section 0 index 0 mem 0x1000 5 file 0x0 5 align 1 lma 0x1000 attrs 1
part 0 mem 0x1000 5 file 0x0 5 align 1
segment 0 mem 0x1000 5 file 0x0 5 align 1
live 1 0 0 0x1004 1
merged 0 4 2 2 4 0x1000
piece 0 0x1000 2
piece 0 0x1002 2
symbol 0 0x1002 64 got - plt - dyn -
symbol 1 0x1000 64 got - plt - dyn -
entry -
end

# Debug data that are kept may choose an offset past the end.
[{"kind":"object","symbols":[{"at":["sec",1,0]}],"sections":[{"slot":"mustdebug","size":8,"relocs":[[0,"Absolute",0,100,false]]},{"slot":"merge","strings":true,"data":"6100"}]}]]
0 layout
section 0 index 0 mem 0x1000 10 file 0x0 10 align 1 lma 0x1000 attrs 1
part 0 mem 0x1000 10 file 0x0 10 align 1
segment 0 mem 0x1000 10 file 0x0 10 align 1
live 1 0 0 0x1002 8
merged 0 2 1 1 2 0x1000
piece 0 0x1000 2
entry -
end

# Empty strings are no piece, but their section is told. Nothing keeps the output section.
[{"kind":"object","sections":[{"slot":"merge","strings":true,"data":""}]}]]
0 layout
section 0 index - mem 0x1000 0 file 0x0 0 align 1 lma 0x1000 attrs 1
part 0 mem 0x1000 0 file 0x0 0 align 1
merged 0 0 0 0 0 0x1000
entry -
end

@ ...

# Data that are missing are none.
{"plan":{"page":16,"sections":[{"attrs":1,"parts":[[1,false]]}],"segments":[{"kind":"load"}],"events":[["seg",0],["sec",0],["endseg",0]]},"groups":[[{"kind":"prelude"}],[{"kind":"object","sections":[{"slot":"merge"}]}]]}
0 layout
section 0 index - mem 0x0 0 file 0x0 0 align 1 lma 0x0 attrs 1
part 0 mem 0x0 0 file 0x0 0 align 1
merged 0 0 0 0 0 0x0
entry -
end

# The size is that of the data.
{"plan":{"page":16,"sections":[{"attrs":1,"parts":[[1,false]]}],"segments":[{"kind":"load"}],"events":[["seg",0],["sec",0],["endseg",0]]},"groups":[[{"kind":"prelude"}],[{"kind":"object","sections":[{"slot":"merge","size":9,"data":"0102"}]}]]}
0 layout
section 0 index 0 mem 0x0 2 file 0x0 2 align 1 lma 0x0 attrs 1
part 0 mem 0x0 2 file 0x0 2 align 1
segment 0 mem 0x0 2 file 0x0 2 align 1
merged 0 2 1 1 2 0x0
piece 0 0x0 2
entry -
end

@ {"plan":{"page":16,"base":["num",4096],"sections":[{"attrs":1,"parts":[[1,false]]}],"segments":[{"kind":"load"}],"events":[["seg",0],["sec",0],["endseg",0]]},"groups":[[{"kind":"prelude"}],...}

# Two equal constants are one.
[{"kind":"object","sections":[{"slot":"merge","data":"01020304"},{"slot":"merge","data":"01020304"}]}]]
0 layout
section 0 index 0 mem 0x1000 4 file 0x0 4 align 1 lma 0x1000 attrs 1
part 0 mem 0x1000 4 file 0x0 4 align 1
segment 0 mem 0x1000 4 file 0x0 4 align 1
merged 0 4 1 2 8 0x1000
piece 0 0x1000 4
entry -
end

# Two sections of one output section: two different strings, one of which begins with the other.
[{"kind":"object","sections":[{"slot":"merge","strings":true,"data":"6100"},{"slot":"merge","strings":true,"data":"616200"}]}]]
0 layout
section 0 index 0 mem 0x1000 5 file 0x0 5 align 1 lma 0x1000 attrs 1
part 0 mem 0x1000 5 file 0x0 5 align 1
segment 0 mem 0x1000 5 file 0x0 5 align 1
merged 0 5 2 2 5 0x1000
piece 0 0x1000 2
piece 0 0x1002 3
entry -
end

# A string and a constant of the same bytes are one; a constant need not end in a zero byte.
[{"kind":"object","sections":[{"slot":"merge","strings":true,"data":"6100"},{"slot":"merge","data":"6100"},{"slot":"merge","data":"61"}]}]]
0 layout
section 0 index 0 mem 0x1000 3 file 0x0 3 align 1 lma 0x1000 attrs 1
part 0 mem 0x1000 3 file 0x0 3 align 1
segment 0 mem 0x1000 3 file 0x0 3 align 1
merged 0 3 2 3 5 0x1000
piece 0 0x1000 2
piece 0 0x1002 1
entry -
end

# Zero bytes alone are empty strings, each of one byte; as a constant they are one of three.
[{"kind":"object","sections":[{"slot":"merge","strings":true,"data":"000000"},{"slot":"merge","data":"000000"}]}]]
0 layout
section 0 index 0 mem 0x1000 4 file 0x0 4 align 1 lma 0x1000 attrs 1
part 0 mem 0x1000 4 file 0x0 4 align 1
segment 0 mem 0x1000 4 file 0x0 4 align 1
merged 0 4 2 4 6 0x1000
piece 0 0x1000 3
piece 0 0x1003 1
entry -
end

# Without a name the symbol is 0, and the addend chooses the byte: from the first to the last one.
[{"kind":"object","symbols":[{"at":["sec",1,0]}],"sections":[{"slot":"must","size":1,"relocs":[[0,"Absolute",0,0,false],[0,"Absolute",0,2,false],[0,"Absolute",0,5,false]]},{"slot":"merge","strings":true,"data":"68656c6c6f00"}]}]]
0 layout
section 0 index 0 mem 0x1000 7 file 0x0 7 align 1 lma 0x1000 attrs 1
part 0 mem 0x1000 7 file 0x0 7 align 1
segment 0 mem 0x1000 7 file 0x0 7 align 1
live 1 0 0 0x1006 1
merged 0 6 1 1 6 0x1000
piece 0 0x1000 6
symbol 0 0x0 64 got - plt - dyn -
entry -
end

# With a name the addend isn't looked at.
[{"kind":"object","symbols":[{"name":"h","at":["sec",1,0]}],"sections":[{"slot":"must","size":1,"relocs":[[0,"Absolute",0,6,false],[0,"Absolute",0,-1,false]]},{"slot":"merge","strings":true,"data":"68656c6c6f00"}]}]]
0 layout
section 0 index 0 mem 0x1000 7 file 0x0 7 align 1 lma 0x1000 attrs 1
part 0 mem 0x1000 7 file 0x0 7 align 1
segment 0 mem 0x1000 7 file 0x0 7 align 1
live 1 0 0 0x1006 1
merged 0 6 1 1 6 0x1000
piece 0 0x1000 6
symbol 0 0x1000 64 got - plt - dyn -
entry -
end

# The name is that of what stands for the symbol: a local symbol without one that is defined by one with a name.
[{"kind":"object","symbols":[{"at":["undef"],"def":1},{"name":"h","at":["sec",1,0]}],"sections":[{"slot":"must","size":1,"relocs":[[0,"Absolute",0,6,false]]},{"slot":"merge","strings":true,"data":"68656c6c6f00"}]}]]
0 layout
section 0 index 0 mem 0x1000 7 file 0x0 7 align 1 lma 0x1000 attrs 1
part 0 mem 0x1000 7 file 0x0 7 align 1
segment 0 mem 0x1000 7 file 0x0 7 align 1
live 1 0 0 0x1006 1
merged 0 6 1 1 6 0x1000
piece 0 0x1000 6
symbol 1 0x1000 64 got - plt - dyn -
entry -
end

# Offset and addend are added within 64 bits: 2^64 - 1 and 2 are 1, and so are 3 and -2.
[{"kind":"object","symbols":[{"at":["sec",1,18446744073709551615]},{"at":["sec",1,3]}],"sections":[{"slot":"must","size":1,"relocs":[[0,"Absolute",0,2,false],[0,"Absolute",1,-2,false]]},{"slot":"merge","strings":true,"data":"6100"}]}]]
0 layout
section 0 index 0 mem 0x1000 3 file 0x0 3 align 1 lma 0x1000 attrs 1
part 0 mem 0x1000 3 file 0x0 3 align 1
segment 0 mem 0x1000 3 file 0x0 3 align 1
live 1 0 0 0x1002 1
merged 0 2 1 1 2 0x1000
piece 0 0x1000 2
symbol 0 0x0 64 got - plt - dyn -
symbol 1 0x0 64 got - plt - dyn -
entry -
end

# A symbol without a name that only the entry refers to is 0, wherever it stands.
[{"kind":"object","symbols":[{"at":["sec",0,9]}],"sections":[{"slot":"merge","strings":true,"data":"6100"}]}]],"options":{"entry":0}
0 layout
section 0 index 0 mem 0x1000 2 file 0x0 2 align 1 lma 0x1000 attrs 1
part 0 mem 0x1000 2 file 0x0 2 align 1
segment 0 mem 0x1000 2 file 0x0 2 align 1
merged 0 2 1 1 2 0x1000
piece 0 0x1000 2
symbol 0 0x0 64 got - plt - dyn -
entry 0x0
end

# An entry with a name in the second of three strings, at its last byte. Buckets 15, 4 and 6: the second comes first.
[{"kind":"object","symbols":[{"name":"e","at":["sec",0,3]}],"sections":[{"slot":"merge","strings":true,"data":"620061006300"}]}]],"options":{"entry":0}
0 layout
section 0 index 0 mem 0x1000 6 file 0x0 6 align 1 lma 0x1000 attrs 1
part 0 mem 0x1000 6 file 0x0 6 align 1
segment 0 mem 0x1000 6 file 0x0 6 align 1
merged 0 6 3 3 6 0x1000
piece 0 0x1000 2
piece 0 0x1002 2
piece 0 0x1004 2
symbol 0 0x1001 64 got - plt - dyn -
entry 0x1001
end

# Nothing refers to a symbol with a name past the end of the data, or before it.
[{"kind":"object","symbols":[{"name":"far","at":["sec",0,9]},{"name":"end","at":["sec",0,2]}],"sections":[{"slot":"merge","strings":true,"data":"6100"}]}]]
0 layout
section 0 index 0 mem 0x1000 2 file 0x0 2 align 1 lma 0x1000 attrs 1
part 0 mem 0x1000 2 file 0x0 2 align 1
segment 0 mem 0x1000 2 file 0x0 2 align 1
merged 0 2 1 1 2 0x1000
piece 0 0x1000 2
entry -
end

# Relocations that want nothing, those of sections that aren't kept, and those of merged sections choose no byte. What a merged section refers to isn't kept for that.
[{"kind":"object","symbols":[{"at":["sec",2,0]},{"at":["sec",3,0]},{"at":["sec",4,0]}],"sections":[{"slot":"must","size":1,"relocs":[[0,"None",0,9,false],[0,"TlsLd",0,9,false]]},{"slot":"unloaded","size":1,"relocs":[[0,"Absolute",0,9,false]]},{"slot":"merge","strings":true,"data":"6100","relocs":[[0,"Absolute",0,9,false],[1,"Absolute",1,0,false],[1,"Absolute",2,0,false]]},{"slot":"unloaded","size":4},{"slot":"discard"}]}]]
0 layout
section 0 index 0 mem 0x1000 3 file 0x0 3 align 1 lma 0x1000 attrs 1
part 0 mem 0x1000 3 file 0x0 3 align 1
segment 0 mem 0x1000 3 file 0x0 3 align 1
live 1 0 0 0x1002 1
merged 0 2 1 1 2 0x1000
piece 0 0x1000 2
entry -
end

# Three sections that start at one place, the first two of them empty: a symbol stands in its own one.
[{"kind":"object","symbols":[{"name":"before","at":["sec",0,0]},{"name":"in","at":["sec",2,1]}],"sections":[{"slot":"merge","strings":true,"data":""},{"slot":"merge","data":""},{"slot":"merge","strings":true,"data":"6100"},{"slot":"must","size":1,"relocs":[[0,"Absolute",1,0,false]]}]}]]
0 layout
section 0 index 0 mem 0x1000 3 file 0x0 3 align 1 lma 0x1000 attrs 1
part 0 mem 0x1000 3 file 0x0 3 align 1
segment 0 mem 0x1000 3 file 0x0 3 align 1
live 1 0 3 0x1002 1
merged 0 2 1 1 2 0x1000
piece 0 0x1000 2
symbol 1 0x1001 64 got - plt - dyn -
entry -
end

# Data of 256 bytes end where the next section starts: its first byte is in that one.
[{"kind":"object","symbols":[{"name":"last","at":["sec",1,255]},{"name":"first","at":["sec",2,0]}],"sections":[{"slot":"must","size":1,"relocs":[[0,"Absolute",0,0,false],[0,"Absolute",1,0,false]]},{"slot":"merge","data":"«256 times 01»"},{"slot":"merge","data":"61"}]}]]
0 layout
section 0 index 0 mem 0x1000 258 file 0x0 258 align 1 lma 0x1000 attrs 1
part 0 mem 0x1000 258 file 0x0 258 align 1
segment 0 mem 0x1000 258 file 0x0 258 align 1
live 1 0 0 0x1101 1
merged 0 257 2 2 257 0x1000
piece 0 0x1000 256
piece 0 0x1100 1
symbol 0 0x10ff 64 got - plt - dyn -
symbol 1 0x1100 64 got - plt - dyn -
entry -
end

# Buckets of four bytes: two strings of one bucket end at 2 and 4.
[{"kind":"object","sections":[{"slot":"merge","strings":true,"data":"61007100"}]}]],"options":{"bucket_limit":4}
0 layout
section 0 index 0 mem 0x1000 4 file 0x0 4 align 1 lma 0x1000 attrs 1
part 0 mem 0x1000 4 file 0x0 4 align 1
segment 0 mem 0x1000 4 file 0x0 4 align 1
merged 0 4 2 2 4 0x1000
piece 0 0x1000 2
piece 0 0x1002 2
entry -
end

# Buckets of two bytes, each with a string; an equal one takes no room.
[{"kind":"object","sections":[{"slot":"merge","strings":true,"data":"6100620061006200"}]}]],"options":{"bucket_limit":2,"merge_group":1}
0 layout
section 0 index 0 mem 0x1000 4 file 0x0 4 align 1 lma 0x1000 attrs 1
part 0 mem 0x1000 4 file 0x0 4 align 1
segment 0 mem 0x1000 4 file 0x0 4 align 1
merged 0 4 2 4 8 0x1000
piece 0 0x1000 2
piece 0 0x1002 2
entry -
end

# Buckets of no bytes hold nothing, which is enough for empty sections.
[{"kind":"object","sections":[{"slot":"merge","strings":true,"data":""},{"slot":"merge","data":""}]}]],"options":{"bucket_limit":0}
0 layout
section 0 index - mem 0x1000 0 file 0x0 0 align 1 lma 0x1000 attrs 1
part 0 mem 0x1000 0 file 0x0 0 align 1
merged 0 0 0 0 0 0x1000
entry -
end

@ ...

# Four output sections, told by number: one where the merged bytes stand behind a part of greater alignment, and before a live section; one without bytes of the file; one without memory, which counts from 0; and one whose merged part isn't walked: it starts where the section does. Attributes of merged sections count, also of empty ones. Lines of pieces stand behind all those of sections.
{"plan":{"page":16,"base":["num",4096],"sections":[{"name":"A","attrs":1,"parts":[[4,false],[1,false]]},{"name":"B","attrs":17,"parts":[[1,true]]},{"name":"C","parts":[[1,false]]},{"name":"D","attrs":1,"parts":[[2,false],[1,false]]}],"segments":[{"kind":"load"}],"events":[["seg",0],["sec",3],["sec",0],["sec",1],["endseg",0],["sec",2]]},"groups":[[{"kind":"prelude"}],[{"kind":"object","sections":[{"slot":"must","part":1,"size":1},{"slot":"merge","part":1,"strings":true,"data":"62006100"},{"slot":"must","part":0,"size":3,"attrs":4},{"slot":"merge","part":2,"data":"0102","attrs":2},{"slot":"merge","part":3,"strings":true,"data":"6100"},{"slot":"must","part":4,"size":2},{"slot":"merge","part":5,"attrs":4}]},{"kind":"object","sections":[{"slot":"merge","part":3,"strings":true,"data":"61007100"},{"slot":"merge","part":1,"strings":true,"data":"6300"}]}]]}
0 layout
section 0 index 1 mem 0x1004 11 file 0x4 11 align 4 lma 0x1004 attrs 5
section 1 index 2 mem 0x100f 2 file 0xf 0 align 1 lma 0x100f attrs 19
section 2 index 3 mem 0x0 4 file 0xf 4 align 1 lma 0x0 attrs 0
section 3 index 0 mem 0x1000 2 file 0x0 2 align 2 lma 0x1000 attrs 5
part 0 mem 0x1004 4 file 0x4 4 align 4
part 1 mem 0x1008 7 file 0x8 7 align 1
part 2 mem 0x100f 2 file 0xf 0 align 1
part 3 mem 0x0 4 file 0xf 4 align 1
part 4 mem 0x1000 2 file 0x0 2 align 2
segment 0 mem 0x1000 17 file 0x0 15 align 4
live 1 0 0 0x100e 1
live 1 0 2 0x1004 3
live 1 0 5 0x1000 2
merged 0 6 3 3 6 0x1008
merged 1 2 1 1 2 0x100f
merged 2 4 2 3 6 0x0
merged 3 0 0 0 0 0x1000
piece 0 0x1008 2
piece 0 0x100a 2
piece 0 0x100c 2
piece 1 0x100f 2
piece 2 0x0 2
piece 2 0x2 2
entry -
end

@ {"plan":{"page":16,"base":["num",4096],"sections":[{"attrs":1,"parts":[[1,false]]}],"segments":[{"kind":"load"}],"events":[["seg",0],["sec",0],["endseg",0]]},"groups":[[{"kind":"prelude"}],...}

# Merged bytes are first in their part, whatever the file of a live section there.
[{"kind":"object","sections":[{"slot":"must","size":3}]},{"kind":"object","sections":[{"slot":"merge","data":"0102"}]}]]
0 layout
section 0 index 0 mem 0x1000 5 file 0x0 5 align 1 lma 0x1000 attrs 1
part 0 mem 0x1000 5 file 0x0 5 align 1
segment 0 mem 0x1000 5 file 0x0 5 align 1
live 1 0 0 0x1002 3
merged 0 2 1 1 2 0x1000
piece 0 0x1000 2
entry -
end

# An empty image in a section that a live section of 0 bytes keeps.
[{"kind":"object","sections":[{"slot":"must"},{"slot":"merge"}]}]]
0 layout
section 0 index 0 mem 0x1000 0 file 0x0 0 align 1 lma 0x1000 attrs 1
part 0 mem 0x1000 0 file 0x0 0 align 1
segment 0 mem 0x1000 0 file 0x0 0 align 1
live 1 0 0 0x1000 0
merged 0 0 0 0 0 0x1000
entry -
end

@ ...

# Bytes that are merged up to the greatest address.
{"plan":{"page":1,"base":["num",18446744073709551613],"sections":[{"attrs":1,"parts":[[1,false]]}],"segments":[{"kind":"load"}],"events":[["seg",0],["sec",0],["endseg",0]]},"groups":[[{"kind":"prelude"}],[{"kind":"object","sections":[{"slot":"merge","data":"0102"}]}]]}
0 layout
section 0 index 0 mem 0xfffffffffffffffd 2 file 0x0 2 align 1 lma 0xfffffffffffffffd attrs 1
part 0 mem 0xfffffffffffffffd 2 file 0x0 2 align 1
segment 0 mem 0xfffffffffffffffd 2 file 0x0 2 align 1
merged 0 2 1 1 2 0xfffffffffffffffd
piece 0 0xfffffffffffffffd 2
entry -
end"#;

/// The same, with what is told where there is no layout.
const REFUSED: &str = r#"
# No zero byte at the end.
@ {"plan":{"page":16,"base":["num",4096],"sections":[{"attrs":1,"parts":[[1,false]]}],"segments":[{"kind":"load"}],"events":[["seg",0],["sec",0],["endseg",0]]},"groups":[[{"kind":"prelude"}],...}
[{"kind":"object","sections":[{"slot":"merge","strings":true,"data":"616263"}]}]] => 1 String in merge-string section is not null-terminated: section 0, input 0
# A zero byte, but none at the end.
[{"kind":"object","sections":[{"slot":"merge","strings":true,"data":"610062"}]}]] => 1 String in merge-string section is not null-terminated: section 0, input 0
# The second of the sections that are merged there, which is the fourth of the file.
[{"kind":"object","sections":[{"slot":"must","size":1},{"slot":"merge","strings":true,"data":"6100"},{"slot":"discard"},{"slot":"merge","strings":true,"data":"61"},{"slot":"merge","strings":true,"data":"62"}]}]] => 1 String in merge-string section is not null-terminated: section 0, input 1
# A constant counts among them, and needs no end.
[{"kind":"object","sections":[{"slot":"merge","data":"61"},{"slot":"merge","strings":true,"data":"61"}]}]] => 1 String in merge-string section is not null-terminated: section 0, input 1
# The fourth, over two files.
[{"kind":"object","sections":[{"slot":"merge","strings":true,"data":"6100"},{"slot":"merge","data":""}]},{"kind":"object","sections":[{"slot":"merge","strings":true,"data":""},{"slot":"merge","strings":true,"data":"61"}]}]] => 1 String in merge-string section is not null-terminated: section 0, input 3
# The first output section by number, though the section stands later, and is placed later.
@ ...
{"plan":{"page":1,"sections":[{"parts":[[1,false]]},{"parts":[[1,false]]}],"events":[["sec",1],["sec",0]]},"groups":[[{"kind":"prelude"}],[{"kind":"object","sections":[{"slot":"merge","part":1,"strings":true,"data":"61"},{"slot":"merge","strings":true,"data":"62"}]}]]} => 1 String in merge-string section is not null-terminated: section 0, input 0
# One that is too long in the first output section, and an end that is missing in the second.
{"options":{"bucket_limit":1},"plan":{"page":1,"sections":[{"parts":[[1,false]]},{"parts":[[1,false]]}],"events":[["sec",1],["sec",0]]},"groups":[[{"kind":"prelude"}],[{"kind":"object","sections":[{"slot":"merge","part":1,"strings":true,"data":"61"},{"slot":"merge","strings":true,"data":"6100"}]}]]} => 1 Merge-string bucket too large: section 0, bucket 4, offset 0, length 2
# In one output section an end that is missing comes first.
@ {"plan":{"page":16,"base":["num",4096],"sections":[{"attrs":1,"parts":[[1,false]]}],"segments":[{"kind":"load"}],"events":[["seg",0],["sec",0],["endseg",0]]},"groups":[[{"kind":"prelude"}],...}
[{"kind":"object","sections":[{"slot":"merge","strings":true,"data":"6100"},{"slot":"merge","strings":true,"data":"61"}]}]],"options":{"bucket_limit":1} => 1 String in merge-string section is not null-terminated: section 0, input 1
# The second string of a bucket of three bytes ends at 4.
[{"kind":"object","sections":[{"slot":"merge","strings":true,"data":"61007100"}]}]],"options":{"bucket_limit":3} => 1 Merge-string bucket too large: section 0, bucket 4, offset 2, length 2
# Equal ones before it take no room.
[{"kind":"object","sections":[{"slot":"merge","strings":true,"data":"6100610061007100"}]}]],"options":{"bucket_limit":3} => 1 Merge-string bucket too large: section 0, bucket 4, offset 2, length 2
# The least bucket, and not the first string: that of 6200 is bucket 15.
[{"kind":"object","sections":[{"slot":"merge","strings":true,"data":"62006100"}]}]],"options":{"bucket_limit":1} => 1 Merge-string bucket too large: section 0, bucket 4, offset 0, length 2
# A constant alone that is too long.
[{"kind":"object","sections":[{"slot":"merge","data":"01020304"}]}]],"options":{"bucket_limit":3} => 1 Merge-string bucket too large: section 0, bucket 13, offset 0, length 4
# A bucket of no bytes.
[{"kind":"object","sections":[{"slot":"merge","strings":true,"data":"00"}]}]],"options":{"bucket_limit":0} => 1 Merge-string bucket too large: section 0, bucket 15, offset 0, length 1
# The byte behind the last one of the data.
[{"kind":"object","symbols":[{"at":["sec",1,0]}],"sections":[{"slot":"must","size":1,"relocs":[[0,"Absolute",0,6,false]]},{"slot":"merge","strings":true,"data":"68656c6c6f00"}]}]] => 1 merge offset: 1 0 0 relocation 0
# The byte before the first one.
[{"kind":"object","symbols":[{"at":["sec",1,0]}],"sections":[{"slot":"must","size":8,"relocs":[[0,"None",0,-1,false],[7,"Relative",0,-1,false]]},{"slot":"merge","strings":true,"data":"610062006100"}]}]] => 1 merge offset: 1 0 0 relocation 1
# A symbol without a name at the end, and an addend of 0: the relocation is told, not the symbol.
[{"kind":"object","symbols":[{"at":["sec",1,2]}],"sections":[{"slot":"must","size":1,"relocs":[[0,"Absolute",0,0,false]]},{"slot":"merge","strings":true,"data":"6100"}]}]] => 1 merge offset: 1 0 0 relocation 0
# A symbol with a name at the end.
[{"kind":"object","symbols":[{"name":"a","at":["sec",1,1]},{"name":"b","at":["sec",1,2]}],"sections":[{"slot":"must","size":1,"relocs":[[0,"Absolute",1,0,false]]},{"slot":"merge","strings":true,"data":"6100"}]}]] => 1 merge offset: symbol 1
# The addend of a relocation doesn't bring it back.
[{"kind":"object","symbols":[{"name":"b","at":["sec",1,2]}],"sections":[{"slot":"must","size":1,"relocs":[[0,"Absolute",0,-1,false]]},{"slot":"merge","strings":true,"data":"6100"}]}]] => 1 merge offset: symbol 0
# An entry with a name past the end.
[{"kind":"object","symbols":[{"name":"b","at":["sec",0,2]}],"sections":[{"slot":"merge","strings":true,"data":"6100"}]}]],"options":{"entry":0} => 1 merge offset: symbol 0
# A symbol that another one is defined by: what stands for it is told.
[{"kind":"object","symbols":[{"at":["undef"],"def":1},{"name":"b","at":["sec",1,2]}],"sections":[{"slot":"must","size":1,"relocs":[[0,"SymbolSize",0,0,false]]},{"slot":"merge","strings":true,"data":"6100"}]}]] => 1 merge offset: symbol 1
# A symbol with a name that is defined by one without: the addend chooses the byte.
[{"kind":"object","symbols":[{"name":"a","at":["undef"],"def":1},{"at":["sec",1,0]}],"sections":[{"slot":"must","size":1,"relocs":[[0,"SymbolSize",0,2,false]]},{"slot":"merge","strings":true,"data":"6100"}]}]] => 1 merge offset: 1 0 0 relocation 0
# In data that are empty there is no byte, though the next section starts there too.
[{"kind":"object","symbols":[{"name":"a","at":["sec",1,0]}],"sections":[{"slot":"must","size":1,"relocs":[[0,"Absolute",0,0,false]]},{"slot":"merge","strings":true,"data":""},{"slot":"merge","strings":true,"data":"6100"}]}]] => 1 merge offset: symbol 0
# Nor behind the end, though the next section starts 256 bytes further on.
[{"kind":"object","symbols":[{"at":["sec",1,0]}],"sections":[{"slot":"must","size":1,"relocs":[[0,"Absolute",0,256,false]]},{"slot":"merge","strings":true,"data":"6100"},{"slot":"merge","strings":true,"data":"6100"}]}]] => 1 merge offset: 1 0 0 relocation 0
# Sums that go once round: 2^64 - 1 and 3 are 2.
[{"kind":"object","symbols":[{"at":["sec",1,18446744073709551615]}],"sections":[{"slot":"must","size":1,"relocs":[[0,"Absolute",0,3,false]]},{"slot":"merge","strings":true,"data":"6100"}]}]] => 1 merge offset: 1 0 0 relocation 0
# The least addend.
[{"kind":"object","symbols":[{"at":["sec",1,0]}],"sections":[{"slot":"must","size":1,"relocs":[[0,"Absolute",0,-9223372036854775808,false]]},{"slot":"merge","strings":true,"data":"6100"}]}]] => 1 merge offset: 1 0 0 relocation 0
# All symbols are looked at before the first relocation.
@ ...
{"plan":{"page":16,"sections":[{"attrs":5,"parts":[[1,false]]},{"attrs":1,"parts":[[1,false]]}],"segments":[{"kind":"load"}],"events":[["seg",0],["sec",0],["sec",1],["endseg",0]]},"groups":[[{"kind":"prelude"}],[{"kind":"object","sections":[{"slot":"must","part":0,"size":8,"relocs":[[0,"Absolute",0,9,false]]},{"slot":"merge","part":1,"data":"00"}],"symbols":[{"at":["sec",1,0]}]}],[{"kind":"object","sections":[{"slot":"must","part":0,"size":8,"relocs":[[0,"Relative",0,0,false]]},{"slot":"merge","part":1,"data":"00"}],"symbols":[{"at":["sec",1,5],"name":"n"}]}]]} => 1 merge offset: symbol 1
# Relocations by file, section and index.
@ {"plan":{"page":16,"base":["num",4096],"sections":[{"attrs":1,"parts":[[1,false]]}],"segments":[{"kind":"load"}],"events":[["seg",0],["sec",0],["endseg",0]]},"groups":[[{"kind":"prelude"}],...}
[{"kind":"object","symbols":[{"at":["sec",1,0]}],"sections":[{"slot":"must","size":1},{"slot":"merge","data":"61"}]},{"kind":"object","symbols":[{"at":["sec",1,0]}],"sections":[{"slot":"must","size":1,"relocs":[[0,"Absolute",0,0,false],[0,"Absolute",0,1,false],[0,"Absolute",0,2,false]]},{"slot":"merge","data":"61"},{"slot":"must","size":1,"relocs":[[0,"Absolute",0,1,false]]}]}]] => 1 merge offset: 1 1 0 relocation 1
# What is merged is looked at before references that can't be met.
[{"kind":"object","symbols":[{"at":["undef"]}],"sections":[{"slot":"must","size":1,"relocs":[[0,"Absolute",0,0,false]]},{"slot":"merge","strings":true,"data":"61"}]}]] => 1 String in merge-string section is not null-terminated: section 0, input 0
# These come before offsets.
[{"kind":"object","symbols":[{"at":["undef"]},{"at":["sec",1,0]}],"sections":[{"slot":"must","size":1,"relocs":[[0,"Absolute",1,9,false],[0,"Absolute",0,0,false]]},{"slot":"merge","strings":true,"data":"6100"}]}]] => 1 undefined: symbol 0 from 1 0 0 relocation 1
# So does what is too large: the bytes that are merged count with the live ones.
[{"kind":"object","symbols":[{"at":["sec",1,0]}],"sections":[{"slot":"must","size":18446744073709551614,"relocs":[[0,"Absolute",0,9,false]]},{"slot":"merge","strings":true,"data":"6100"}]}]] => 1 address overflow: part 0
# And what ends past the greatest address.
@ ...
{"plan":{"page":1,"base":["num",18446744073709551613],"sections":[{"attrs":1,"parts":[[1,false]]}],"segments":[{"kind":"load"}],"events":[["seg",0],["sec",0],["endseg",0]]},"groups":[[{"kind":"prelude"}],[{"kind":"object","symbols":[{"at":["sec",1,0]}],"sections":[{"slot":"must","size":1,"relocs":[[0,"Absolute",0,9,false]]},{"slot":"merge","strings":true,"data":"6100"}]}]]} => 1 address overflow: event 1
# And a section outside all segments, which bytes that are merged keep.
{"plan":{"page":1,"sections":[{"attrs":1,"parts":[[1,false]]}],"events":[["sec",0]]},"groups":[[{"kind":"prelude"}],[{"kind":"object","sections":[{"slot":"merge","strings":true,"data":"6100"}]}]]} => 1 section 0 is in no segment
# That, and an offset.
{"options":{"entry":0},"plan":{"page":1,"sections":[{"attrs":1,"parts":[[1,false]]}],"events":[["sec",0]]},"groups":[[{"kind":"prelude"}],[{"kind":"object","symbols":[{"name":"b","at":["sec",0,2]}],"sections":[{"slot":"merge","strings":true,"data":"6100"}]}]]} => 1 section 0 is in no segment
# A rule comes before all of it: the part of a merge section has alignment 1.
{"plan":{"page":1,"sections":[{"parts":[[2,false],[1,false]]}],"events":[["sec",0]]},"groups":[[{"kind":"prelude"}],[{"kind":"object","sections":[{"slot":"merge","part":0,"strings":true,"data":"61"}]}]]} => 1 bad link: rule 11, input 1 0 0
"#;

#[test]
fn merged_links_are_laid_out(rt: HostRuntime) -> Result<(), Fail> {
    expect_reports(&rt, rt.alloc(), REPORTED)
}

#[test]
fn merged_links_are_refused(rt: HostRuntime) -> Result<(), Fail> {
    expect_rows(&rt, rt.alloc(), Asked::Run, REFUSED)
}
