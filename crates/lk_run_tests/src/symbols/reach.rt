//! Runs over links in which something refers to something: what is kept, the values of symbols, the entry, and references
//! that can't be met.

use crate::runs::expect_reports;
use std::test::Fail;

/// What stands behind the prelude's group in a description of one output section, with its report.
const KEPT: &str =
    r#"@ {"plan":{"page":16,"sections":[{"attrs":1,"parts":[[1,false]]}],"segments":[{"kind":"load"}],"events":[["seg",0],["sec",0],["endseg",0]]},"groups":[[{"kind":"prelude"}],...}

# A section that is kept in any case refers to a second one, and nothing to the third.
[{"kind":"object","symbols":[{"at":["sec",1,0]}],"sections":[{"slot":"must","size":4,"relocs":[[0,"Absolute",0,0,false]]},{"slot":"unloaded","size":2},{"slot":"unloaded","size":1}]}]]
0 layout
section 0 index 0 mem 0x0 6 file 0x0 6 align 1 lma 0x0 attrs 1
part 0 mem 0x0 6 file 0x0 6 align 1
segment 0 mem 0x0 6 file 0x0 6 align 1
live 1 0 0 0x0 4
live 1 0 1 0x4 2
symbol 0 0x4 64 got - plt - dyn -
entry -
end

# Without collection all three stay.
[{"kind":"object","symbols":[{"at":["sec",1,0]}],"sections":[{"slot":"must","size":4,"relocs":[[0,"Absolute",0,0,false]]},{"slot":"unloaded","size":2},{"slot":"unloaded","size":1}]}]],"options":{"gc":false}
0 layout
section 0 index 0 mem 0x0 7 file 0x0 7 align 1 lma 0x0 attrs 1
part 0 mem 0x0 7 file 0x0 7 align 1
segment 0 mem 0x0 7 file 0x0 7 align 1
live 1 0 0 0x0 4
live 1 0 1 0x4 2
live 1 0 2 0x6 1
symbol 0 0x4 64 got - plt - dyn -
entry -
end

# Two sections that refer to each other, of which none is asked for;
[{"kind":"object","symbols":[{"at":["sec",0,0]},{"at":["sec",1,1]}],"sections":[{"slot":"unloaded","size":3,"relocs":[[0,"Absolute",1,0,false]]},{"slot":"unloaded","size":5,"relocs":[[0,"Absolute",0,0,false]]}]}]]
0 layout
section 0 index - mem 0x0 0 file 0x0 0 align 1 lma 0x0 attrs 1
part 0 mem 0x0 0 file 0x0 0 align 1
entry -
end

# and of which one is kept in any case.
[{"kind":"object","symbols":[{"at":["sec",0,0]},{"at":["sec",1,1]}],"sections":[{"slot":"must","size":3,"relocs":[[0,"Absolute",1,0,false]]},{"slot":"unloaded","size":5,"relocs":[[0,"Absolute",0,0,false]]}]}]]
0 layout
section 0 index 0 mem 0x0 8 file 0x0 8 align 1 lma 0x0 attrs 1
part 0 mem 0x0 8 file 0x0 8 align 1
segment 0 mem 0x0 8 file 0x0 8 align 1
live 1 0 0 0x0 3
live 1 0 1 0x3 5
symbol 0 0x0 64 got - plt - dyn -
symbol 1 0x4 64 got - plt - dyn -
entry -
end

# A section that refers to itself, with collection
[{"kind":"object","symbols":[{"at":["sec",0,3]}],"sections":[{"slot":"unloaded","size":3,"relocs":[[2,"Absolute",0,0,false]]}]}]]
0 layout
section 0 index - mem 0x0 0 file 0x0 0 align 1 lma 0x0 attrs 1
part 0 mem 0x0 0 file 0x0 0 align 1
entry -
end

# and without.
[{"kind":"object","symbols":[{"at":["sec",0,3]}],"sections":[{"slot":"unloaded","size":3,"relocs":[[2,"Absolute",0,0,false]]}]}]],"options":{"gc":false}
0 layout
section 0 index 0 mem 0x0 3 file 0x0 3 align 1 lma 0x0 attrs 1
part 0 mem 0x0 3 file 0x0 3 align 1
segment 0 mem 0x0 3 file 0x0 3 align 1
live 1 0 0 0x0 3
symbol 0 0x3 64 got - plt - dyn -
entry -
end

# A ring through three files of two groups, by symbols for which those of other files stand.
[{"kind":"object","symbols":[{"at":["undef"],"def":2},{"at":["sec",0,2]}],"sections":[{"slot":"unloaded","size":2,"relocs":[[1,"Absolute",0,0,false]]}]},{"kind":"object","symbols":[{"at":["sec",0,0]},{"at":["undef"],"def":5}],"sections":[{"slot":"unloaded","size":3,"relocs":[[0,"Absolute",1,0,false]]}]}],[],[{"kind":"object","symbols":[{"at":["undef"],"def":1},{"at":["sec",1,4]}],"sections":[{"slot":"must","size":1,"relocs":[[0,"Absolute",0,0,false]]},{"slot":"unloaded","size":4,"relocs":[[0,"Absolute",0,0,false]]}]}]]
0 layout
section 0 index 0 mem 0x0 10 file 0x0 10 align 1 lma 0x0 attrs 1
part 0 mem 0x0 10 file 0x0 10 align 1
segment 0 mem 0x0 10 file 0x0 10 align 1
live 1 0 0 0x0 2
live 1 1 0 0x2 3
live 3 0 0 0x5 1
live 3 0 1 0x6 4
symbol 1 0x2 64 got - plt - dyn -
symbol 2 0x2 64 got - plt - dyn -
symbol 5 0xa 64 got - plt - dyn -
entry -
end

# Relocations that want nothing of their symbols: of a section, of one defined nowhere, of a discarded section.
[{"kind":"object","symbols":[{"at":["sec",1,0]},{"at":["undef"]},{"at":["sec",2,0]}],"sections":[{"slot":"must","size":1,"relocs":[[0,"None",0,0,true],[0,"Alignment",1,0,true],[0,"MachoAddition",2,0,true],[0,"TlsLd",0,0,true],[0,"TlsLdGot",1,0,true],[0,"TlsLdGotBase",2,0,true]]},{"slot":"unloaded","size":2},{"slot":"discard"}]}]]
0 layout
section 0 index 0 mem 0x0 1 file 0x0 1 align 1 lma 0x0 attrs 1
part 0 mem 0x0 1 file 0x0 1 align 1
segment 0 mem 0x0 1 file 0x0 1 align 1
live 1 0 0 0x0 1
entry -
end

# Flags that are handed in, that two relocations set, and that only a dead section would set; a symbol that nothing refers to.
[{"kind":"object","symbols":[{"at":["abs",5],"flags":63},{"at":["abs",6],"flags":63},{"at":["abs",7],"flags":8},{"at":["abs",8],"weak":true,"local":true,"hidden":true,"name":"n"}],"sections":[{"slot":"must","size":1,"relocs":[[0,"Absolute",1,0,false],[0,"TpOff",2,0,false],[0,"SymbolSize",2,0,false],[0,"SymbolSize",3,0,false]]},{"slot":"unloaded","size":1,"relocs":[[0,"Absolute",3,0,false],[0,"Absolute",0,0,false]]}]}]]
0 layout
section 0 index 0 mem 0x0 1 file 0x0 1 align 1 lma 0x0 attrs 1
part 0 mem 0x0 1 file 0x0 1 align 1
segment 0 mem 0x0 1 file 0x0 1 align 1
live 1 0 0 0x0 1
symbol 1 0x6 127 got - plt - dyn -
symbol 2 0x7 4168 got - plt - dyn -
symbol 3 0x8 4096 got - plt - dyn -
entry -
end

# A symbol for which another stands: neither its own flags nor its own value count.
[{"kind":"object","symbols":[{"at":["abs",5],"flags":32,"def":1},{"at":["abs",9],"flags":4,"def":1}],"sections":[{"slot":"must","size":1,"relocs":[[0,"Absolute",0,0,false]]}]}]]
0 layout
section 0 index 0 mem 0x0 1 file 0x0 1 align 1 lma 0x0 attrs 1
part 0 mem 0x0 1 file 0x0 1 align 1
segment 0 mem 0x0 1 file 0x0 1 align 1
live 1 0 0 0x0 1
symbol 1 0x9 68 got - plt - dyn -
entry -
end

# The greatest offsets, addends and values.
[{"kind":"object","symbols":[{"at":["sec",0,18446744073709551615]},{"at":["sec",1,0]},{"at":["abs",18446744073709551615]},{"at":["sec",0,0]}],"sections":[{"slot":"must","size":18446744073709551615,"relocs":[[18446744073709551614,"Absolute",0,-9223372036854775808,false],[18446744073709551614,"Absolute",1,9223372036854775807,true],[0,"Absolute",2,-1,false],[0,"Absolute",3,1,false]]},{"slot":"unloaded"}]}]]
0 layout
section 0 index 0 mem 0x0 18446744073709551615 file 0x0 18446744073709551615 align 1 lma 0x0 attrs 1
part 0 mem 0x0 18446744073709551615 file 0x0 18446744073709551615 align 1
segment 0 mem 0x0 18446744073709551615 file 0x0 18446744073709551615 align 1
live 1 0 0 0x0 18446744073709551615
live 1 0 1 0xffffffffffffffff 0
symbol 0 0xffffffffffffffff 64 got - plt - dyn -
symbol 1 0xffffffffffffffff 64 got - plt - dyn -
symbol 2 0xffffffffffffffff 64 got - plt - dyn -
symbol 3 0x0 64 got - plt - dyn -
entry -
end

# Dead sections, whatever they say of themselves.
[{"kind":"object","symbols":[{"at":["sec",0,18446744073709551615]},{"at":["sec",1,0]}],"sections":[{"slot":"unloaded","size":18446744073709551615,"attrs":6},{"slot":"unloaded","size":18446744073709551615},{"slot":"discard","size":18446744073709551615,"part":4294967295,"attrs":4294967295,"relocs":[[18446744073709551615,"Absolute",4294967295,1,true]],"relax":[[9,9,9,0],[0,0,0,99]]},{"slot":"must","size":1}]}]]
0 layout
section 0 index 0 mem 0x0 1 file 0x0 1 align 1 lma 0x0 attrs 1
part 0 mem 0x0 1 file 0x0 1 align 1
segment 0 mem 0x0 1 file 0x0 1 align 1
live 1 0 3 0x0 1
entry -
end

# A symbol that is defined nowhere, by a weak one,
[{"kind":"object","symbols":[{"at":["undef"]}],"sections":[]}],[{"kind":"object","symbols":[{"at":["abs",7],"weak":true,"def":0}],"sections":[{"slot":"must","size":1,"relocs":[[0,"Absolute",0,0,false]]}]}]]
0 layout
section 0 index 0 mem 0x0 1 file 0x0 1 align 1 lma 0x0 attrs 1
part 0 mem 0x0 1 file 0x0 1 align 1
segment 0 mem 0x0 1 file 0x0 1 align 1
live 2 0 0 0x0 1
symbol 0 0x0 64 got - plt - dyn -
entry -
end

# and where no object is asked about such.
[{"kind":"object","symbols":[{"at":["undef"]}],"sections":[{"slot":"must","size":1,"relocs":[[0,"Absolute",0,0,false]]}]}]],"options":{"error_objects":false}
0 layout
section 0 index 0 mem 0x0 1 file 0x0 1 align 1 lma 0x0 attrs 1
part 0 mem 0x0 1 file 0x0 1 align 1
segment 0 mem 0x0 1 file 0x0 1 align 1
live 1 0 0 0x0 1
symbol 0 0x0 64 got - plt - dyn -
entry -
end

# The last of many symbols.
[{"kind":"object","symbols":[«300 of {"at":["abs",7]}»],"sections":[{"slot":"must","size":1,"relocs":[[0,"Absolute",299,0,false]]}]}]]
0 layout
section 0 index 0 mem 0x0 1 file 0x0 1 align 1 lma 0x0 attrs 1
part 0 mem 0x0 1 file 0x0 1 align 1
segment 0 mem 0x0 1 file 0x0 1 align 1
live 1 0 0 0x0 1
symbol 299 0x7 64 got - plt - dyn -
entry -
end

# What a dead section refers to.
[{"kind":"object","symbols":[{"at":["sec",1,0]},{"at":["undef"]},{"at":["sec",2,0]}],"sections":[{"slot":"unloaded","size":9,"relocs":[[0,"Absolute",0,0,false],[0,"Absolute",1,0,false],[0,"Absolute",2,0,false]]},{"slot":"unloaded","size":1},{"slot":"discard","size":1}]}]]
0 layout
section 0 index - mem 0x0 0 file 0x0 0 align 1 lma 0x0 attrs 1
part 0 mem 0x0 0 file 0x0 0 align 1
entry -
end

# An entry in a section that nothing else refers to;
[{"kind":"object","symbols":[{"at":["abs",1]},{"at":["sec",1,2]}],"sections":[{"slot":"unloaded","size":4},{"slot":"unloaded","size":4}]}]],"options":{"entry":1}
0 layout
section 0 index 0 mem 0x0 4 file 0x0 4 align 1 lma 0x0 attrs 1
part 0 mem 0x0 4 file 0x0 4 align 1
segment 0 mem 0x0 4 file 0x0 4 align 1
live 1 0 1 0x0 4
symbol 1 0x2 64 got - plt - dyn -
entry 0x2
end

# one for which another symbol stands;
[{"kind":"object","symbols":[{"at":["undef"],"def":1,"weak":true},{"at":["sec",0,1]}],"sections":[{"slot":"unloaded","size":4}]}]],"options":{"entry":0}
0 layout
section 0 index 0 mem 0x0 4 file 0x0 4 align 1 lma 0x0 attrs 1
part 0 mem 0x0 4 file 0x0 4 align 1
segment 0 mem 0x0 4 file 0x0 4 align 1
live 1 0 0 0x0 4
symbol 1 0x1 64 got - plt - dyn -
entry 0x1
end

# one for which a symbol of another file stands, as for itself;
[{"kind":"object","symbols":[{"at":["undef"],"def":1}]},{"kind":"object","symbols":[{"at":["sec",0,3],"def":1}],"sections":[{"slot":"unloaded","size":4}]}]],"options":{"entry":0}
0 layout
section 0 index 0 mem 0x0 4 file 0x0 4 align 1 lma 0x0 attrs 1
part 0 mem 0x0 4 file 0x0 4 align 1
segment 0 mem 0x0 4 file 0x0 4 align 1
live 1 1 0 0x0 4
symbol 1 0x3 64 got - plt - dyn -
entry 0x3
end

# the greatest number;
[{"kind":"object","symbols":[{"at":["abs",18446744073709551615]}],"sections":[]}]],"options":{"entry":0}
0 layout
section 0 index - mem 0x0 0 file 0x0 0 align 1 lma 0x0 attrs 1
part 0 mem 0x0 0 file 0x0 0 align 1
symbol 0 0xffffffffffffffff 64 got - plt - dyn -
entry 0xffffffffffffffff
end

# one that is defined nowhere;
[{"kind":"object","symbols":[{"at":["undef"]}]}]],"options":{"entry":0}
0 layout
section 0 index - mem 0x0 0 file 0x0 0 align 1 lma 0x0 attrs 1
part 0 mem 0x0 0 file 0x0 0 align 1
symbol 0 0x0 64 got - plt - dyn -
entry 0x0
end

# one that the dynamic linker gives, in a section
[{"kind":"object","symbols":[{"at":["sec",0,1],"flags":2}],"sections":[{"slot":"unloaded","size":1}]}]],"options":{"entry":0}
0 layout
section 0 index 0 mem 0x0 1 file 0x0 1 align 1 lma 0x0 attrs 1
part 0 mem 0x0 1 file 0x0 1 align 1
segment 0 mem 0x0 1 file 0x0 1 align 1
live 1 0 0 0x0 1
symbol 0 0x1 66 got - plt - dyn -
entry not an address
end

# and nowhere;
[{"kind":"object","symbols":[{"at":["undef"],"flags":2}],"sections":[]}]],"options":{"entry":0}
0 layout
section 0 index - mem 0x0 0 file 0x0 0 align 1 lma 0x0 attrs 1
part 0 mem 0x0 0 file 0x0 0 align 1
symbol 0 0x0 66 got - plt - dyn -
entry not an address
end

# one that is a number besides;
[{"kind":"object","symbols":[{"at":["abs",8],"flags":3}],"sections":[]}]],"options":{"entry":0}
0 layout
section 0 index - mem 0x0 0 file 0x0 0 align 1 lma 0x0 attrs 1
part 0 mem 0x0 0 file 0x0 0 align 1
symbol 0 0x8 67 got - plt - dyn -
entry 0x8
end

# and one that stands for one that the dynamic linker gives.
[{"kind":"object","symbols":[{"at":["abs",8],"flags":2,"def":1},{"at":["abs",9],"flags":1}],"sections":[]}]],"options":{"entry":0}
0 layout
section 0 index - mem 0x0 0 file 0x0 0 align 1 lma 0x0 attrs 1
part 0 mem 0x0 0 file 0x0 0 align 1
symbol 1 0x9 65 got - plt - dyn -
entry 0x9
end

# A symbol that nothing refers to,
[{"kind":"object","symbols":[{"at":["abs",1]}]}]]
0 layout
section 0 index - mem 0x0 0 file 0x0 0 align 1 lma 0x0 attrs 1
part 0 mem 0x0 0 file 0x0 0 align 1
entry -
end

# a section that nothing refers to,
[{"kind":"object","symbols":[{"at":["undef"]}],"sections":[{"slot":"unloaded","size":4}]}]]
0 layout
section 0 index - mem 0x0 0 file 0x0 0 align 1 lma 0x0 attrs 1
part 0 mem 0x0 0 file 0x0 0 align 1
entry -
end

# and one that is discarded.
[{"kind":"object","sections":[{"slot":"discard"}]}]]
0 layout
section 0 index - mem 0x0 0 file 0x0 0 align 1 lma 0x0 attrs 1
part 0 mem 0x0 0 file 0x0 0 align 1
entry -
end

# Where addresses are neither places in the file nor sums of sizes.
@ {"plan":{"page":16,"base":["num",4096],"sections":[{"attrs":1,"parts":[[8,false],[1,false]]},{"attrs":17,"parts":[[4,false]]},{"parts":[[1,false]]}],"segments":[{"kind":"load"}],"events":[["seg",0],["sec",0],["sec",1],["endseg",0],["sec",2]]},"groups":[[{"kind":"prelude"}],...}

# The end of a section in a part that is rounded up, one in a part without bytes beside it, and sections without room in the file and in memory.
[{"kind":"object","symbols":[{"at":["sec",0,5]},{"at":["sec",1,0]},{"at":["sec",2,2]},{"at":["sec",3,1]}],"sections":[{"slot":"must","size":5,"relocs":[[0,"Absolute",0,0,false],[0,"Absolute",1,0,false],[0,"Absolute",2,0,false],[0,"Absolute",3,0,false]]},{"slot":"unloaded","part":1},{"slot":"unloaded","part":2,"size":4},{"slot":"unloaded","part":3,"size":3}]}]]
0 layout
section 0 index 0 mem 0x1000 8 file 0x0 8 align 8 lma 0x1000 attrs 1
section 1 index 1 mem 0x1008 4 file 0x8 0 align 4 lma 0x1008 attrs 17
section 2 index 2 mem 0x0 3 file 0x8 3 align 1 lma 0x0 attrs 0
part 0 mem 0x1000 8 file 0x0 8 align 8
part 2 mem 0x1008 4 file 0x8 0 align 4
part 3 mem 0x0 3 file 0x8 3 align 1
segment 0 mem 0x1000 12 file 0x0 8 align 8
live 1 0 0 0x1000 5
live 1 0 1 0x1000 0
live 1 0 2 0x1008 4
live 1 0 3 0x0 3
symbol 0 0x1005 64 got - plt - dyn -
symbol 1 0x1000 64 got - plt - dyn -
symbol 2 0x100a 64 got - plt - dyn -
symbol 3 0x1 64 got - plt - dyn -
entry -
end"#;

/// The same, with the lines that tell which references can't be met.
const UNMET: &str =
    r#"@ {"plan":{"page":16,"sections":[{"attrs":1,"parts":[[1,false]]}],"segments":[{"kind":"load"}],"events":[["seg",0],["sec",0],["endseg",0]]},"groups":[[{"kind":"prelude"}],...}

# Two discarded sections and a symbol that is defined nowhere, in three groups.
[{"kind":"object","symbols":[{"at":["sec",1,0]}],"sections":[{"slot":"must","size":1,"relocs":[[0,"Absolute",0,0,false]]},{"slot":"discard","size":1}]}],[{"kind":"object","symbols":[{"at":["sec",0,0]},{"at":["undef"]}],"sections":[{"slot":"discard","size":1},{"slot":"must","size":2,"relocs":[[0,"Absolute",0,0,false]]}]}],[{"kind":"object","symbols":[{"at":["undef"]}],"sections":[{"slot":"must","size":2,"relocs":[[0,"Absolute",0,0,false]]}]}]]
1 discarded: 1 0 1
discarded: 2 0 0
undefined: symbol 3 from 3 0 0 relocation 0

# The same where no object is asked about symbols that are defined nowhere,
[{"kind":"object","symbols":[{"at":["sec",1,0]}],"sections":[{"slot":"must","size":1,"relocs":[[0,"Absolute",0,0,false]]},{"slot":"discard","size":1}]}],[{"kind":"object","symbols":[{"at":["sec",0,0]},{"at":["undef"]}],"sections":[{"slot":"discard","size":1},{"slot":"must","size":2,"relocs":[[0,"Absolute",0,0,false]]}]}],[{"kind":"object","symbols":[{"at":["undef"]}],"sections":[{"slot":"must","size":2,"relocs":[[0,"Absolute",0,0,false]]}]}]],"options":{"error_objects":false}
1 discarded: 1 0 1
discarded: 2 0 0

# and where no dynamic file is.
[{"kind":"object","symbols":[{"at":["sec",1,0]}],"sections":[{"slot":"must","size":1,"relocs":[[0,"Absolute",0,0,false]]},{"slot":"discard","size":1}]}],[{"kind":"object","symbols":[{"at":["sec",0,0]},{"at":["undef"]}],"sections":[{"slot":"discard","size":1},{"slot":"must","size":2,"relocs":[[0,"Absolute",0,0,false]]}]}],[{"kind":"object","symbols":[{"at":["undef"]}],"sections":[{"slot":"must","size":2,"relocs":[[0,"Absolute",0,0,false]]}]}]],"options":{"error_dynamics":false}
1 discarded: 1 0 1
discarded: 2 0 0
undefined: symbol 3 from 3 0 0 relocation 0

# A discarded section is told once, and each relocation by itself.
[{"kind":"object","symbols":[{"at":["undef"]},{"at":["sec",0,0]}],"sections":[{"slot":"discard","size":1},{"slot":"must","size":2,"relocs":[[0,"Absolute",0,0,false],[0,"Absolute",1,0,false],[1,"SymbolSize",0,0,false],[0,"Absolute",1,0,false]]}]},{"kind":"object","symbols":[{"at":["undef"],"def":0},{"at":["undef"],"def":1},{"at":["abs",0],"def":0}],"sections":[{"slot":"must","size":2,"relocs":[[0,"Absolute",2,0,false],[0,"Absolute",1,0,false],[0,"None",0,0,false],[0,"Absolute",0,0,false]]},{"slot":"discard"}]}]]
1 discarded: 1 0 0
undefined: symbol 0 from 1 0 1 relocation 0
undefined: symbol 0 from 1 0 1 relocation 2
undefined: symbol 0 from 1 1 0 relocation 0
undefined: symbol 0 from 1 1 0 relocation 3

# Whether a symbol is weak is asked of the one that a relocation names.
[{"kind":"object","symbols":[{"at":["undef"],"weak":true},{"at":["undef"],"def":0},{"at":["undef"],"def":0,"weak":true}],"sections":[{"slot":"must","size":1,"relocs":[[0,"Absolute",0,0,false],[0,"Absolute",1,0,false],[0,"Absolute",2,0,false]]}]}]]
1 undefined: symbol 0 from 1 0 0 relocation 1

# An entry in a discarded section.
[{"kind":"object","symbols":[{"at":["sec",0,1]}],"sections":[{"slot":"discard","size":1,"part":4294967295}]}]],"options":{"entry":0}
1 discarded: 1 0 0

# A discarded section that only a section refers to that stays without collection.
[{"kind":"object","symbols":[{"at":["sec",1,0]}],"sections":[{"slot":"unloaded","size":1,"relocs":[[0,"Absolute",0,0,false]]},{"slot":"discard"}]}]],"options":{"gc":false}
1 discarded: 1 0 1

# References are looked at before sizes.
[{"kind":"object","symbols":[{"at":["undef"],"flags":3}],"sections":[{"slot":"must","size":18446744073709551615,"relocs":[[0,"Absolute",0,0,false]]},{"slot":"must","size":1}]}]]
1 undefined: symbol 0 from 1 0 0 relocation 0"#;

#[test]
fn what_is_reached_is_reported(rt: HostRuntime) -> Result<(), Fail> {
    expect_reports(&rt, rt.alloc(), KEPT)
}

#[test]
fn references_that_cannot_be_met_are_told(rt: HostRuntime) -> Result<(), Fail> {
    expect_reports(&rt, rt.alloc(), UNMET)
}
