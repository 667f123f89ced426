//! What symbols take in tables: which are copied, the symbol table with its names, and the dynamic symbol table.

ghost use Rattle.std.specs.Prelude.{◌≡◌, false, length};
ghost use Rattle.lk_link.specs.Parts.{all_parts};
ghost use Rattle.lk_link.specs.WellFormed.{IsWellFormed};
ghost use Rattle.lk_live.specs.Reach.{AreLive};

use crate::rows::{Asked, expect_rows};
use crate::sizes::OfSizes;
use lk_check::check_link;
use lk_link::{LinkInput, PartId, Small64, SymbolId};
use lk_live::{Live, traverse_alone};
use lk_sizes::{
    HeaderInfo, PartTotal, SymbolCopyInfo, content_totals, determine_header_sizes, dynamic_table,
    first_sizes, header_sizes, symbol_sizes,
};
use lk_tables::{
    FileShare, TableTotals, bytes_in_part, first_totals, mark_prelude, symbol_shares, whole_totals,
};
use lk_test_rows::add;
use std::alloc::{AllocError, Global};
use std::test::Fail;

/// The bytes of the tables first, the names under which symbols are copied, the bytes of each file in the symbol table and its names, those of
/// whole tables and of headers, and whose the entries of the dynamic symbol table are: of a symbol
/// that is downgraded to local; of local ones, with names of assemblers, to be left out, of a section group, hidden, undefined and
/// without a name; of a link without a symbol table; of two that are exported; of one that is exported and dynamic; of symbols of
/// the prelude, which are marked late; of one with entries in both tables; of headers that stand in parts; of dynamic symbols in
/// parts, among them an export of the prelude that keeps the section; of both symbol tables in parts, also of a section that is
/// never emitted; of a table's own name, which keeps no section; of a symbol with every flag; of output that is linked again; and of names of a megabyte and of no bytes.
const TABLES: &str = r#"
{"plan":{"page":16,"sections":[{"attrs":0,"parts":[[8,false],[4,false]]},{"attrs":1,"parts":[[1,false]]}],"segments":[{"kind":"load"}],"events":[["seg",0],["sec",0],["sec",1],["endseg",0]]},"groups":[[{"kind":"prelude"}],[{"kind":"object","sections":[{"slot":"must","part":2,"size":1}],"symbols":[{"at":["sec",0,0],"name":"x","flags":8}]}]]} => first TableTotals { got: 0, plt: 0, symtab_local: 0, symtab_global: 24, strtab: 2, dynsym: 0, dynstr: 0, file_header: 0, program_headers: 0, section_headers: 0, shstrtab: 0 } copied [Some("x")] symbols [(FileId { group: 0, file: 0 }, 24, 0, 1), (FileId { group: 1, file: 0 }, 0, 24, 2)] whole TableTotals { got: 0, plt: 0, symtab_local: 24, symtab_global: 24, strtab: 3, dynsym: 0, dynstr: 0, file_header: 64, program_headers: 56, section_headers: 64, shstrtab: 1 } parts [0, 0, 0] headers HeaderSizes { file_header: 64, program_headers: 56, section_headers: 64, shstrtab: 1 } dynamic []
{"options":{"strip_names":["s"]},"plan":{"page":16},"groups":[[{"kind":"prelude"}],[{"kind":"object","symbols":[{"at":["abs",1],"name":".Lx","local":true},{"at":["abs",1],"name":"s"},{"at":["abs",1],"name":"l","local":true},{"at":["abs",1],"name":"h","hidden":true},{"at":["abs",1],"name":".Lg","local":true,"flags":16},{"at":["undef"],"name":"u"},{"at":["abs",1]}]}]]} => first TableTotals { got: 0, plt: 0, symtab_local: 48, symtab_global: 24, strtab: 8, dynsym: 0, dynstr: 0, file_header: 0, program_headers: 0, section_headers: 0, shstrtab: 0 } copied [None, None, Some("l"), Some("h"), Some(".Lg"), None, None] symbols [(FileId { group: 0, file: 0 }, 24, 0, 1), (FileId { group: 1, file: 0 }, 48, 24, 8)] whole TableTotals { got: 0, plt: 0, symtab_local: 72, symtab_global: 24, strtab: 9, dynsym: 0, dynstr: 0, file_header: 64, program_headers: 0, section_headers: 0, shstrtab: 0 } parts [] headers HeaderSizes { file_header: 64, program_headers: 0, section_headers: 0, shstrtab: 0 } dynamic []
{"options":{"strip_all":true},"plan":{"page":16},"groups":[[{"kind":"prelude"}],[{"kind":"object","symbols":[{"at":["abs",1],"name":"l","local":true}]}]]} => first TableTotals { got: 0, plt: 0, symtab_local: 0, symtab_global: 0, strtab: 0, dynsym: 0, dynstr: 0, file_header: 0, program_headers: 0, section_headers: 0, shstrtab: 0 } copied [Some("l")] symbols [(FileId { group: 0, file: 0 }, 0, 0, 0), (FileId { group: 1, file: 0 }, 0, 0, 0)] whole TableTotals { got: 0, plt: 0, symtab_local: 0, symtab_global: 0, strtab: 0, dynsym: 0, dynstr: 0, file_header: 64, program_headers: 0, section_headers: 0, shstrtab: 0 } parts [] headers HeaderSizes { file_header: 64, program_headers: 0, section_headers: 0, shstrtab: 0 } dynamic []
{"options":{"output":"shared"},"plan":{"page":16,"sections":[{"attrs":1,"parts":[[8,false]]}],"segments":[{"kind":"load"}],"events":[["seg",0],["sec",0],["endseg",0]]},"groups":[[{"kind":"prelude"}],[{"kind":"object","sections":[{"slot":"must","size":4}],"symbols":[{"at":["sec",0,0],"name":"a"},{"at":["sec",0,0],"name":"bb"}]}]]} => first TableTotals { got: 0, plt: 0, symtab_local: 0, symtab_global: 48, strtab: 5, dynsym: 48, dynstr: 5, file_header: 0, program_headers: 0, section_headers: 0, shstrtab: 0 } copied [Some("a"), Some("bb")] symbols [(FileId { group: 0, file: 0 }, 24, 0, 1), (FileId { group: 1, file: 0 }, 0, 48, 5)] whole TableTotals { got: 0, plt: 0, symtab_local: 24, symtab_global: 48, strtab: 6, dynsym: 72, dynstr: 6, file_header: 64, program_headers: 56, section_headers: 64, shstrtab: 1 } parts [0] headers HeaderSizes { file_header: 64, program_headers: 56, section_headers: 64, shstrtab: 1 } dynamic [SymbolId { number: 0 }, SymbolId { number: 1 }]
{"options":{"output":"shared"},"plan":{"page":16,"sections":[{"attrs":5,"parts":[[1,false]]},{"attrs":1,"parts":[[8,false]]}],"segments":[{"kind":"load"}],"events":[["seg",0],["sec",0],["sec",1],["endseg",0]]},"groups":[[{"kind":"prelude"}],[{"kind":"object","sections":[{"slot":"must","part":0,"size":4}],"symbols":[{"at":["sec",0,0],"name":"a","flags":2},{"at":["sec",0,0],"name":"b"}]}]]} => first TableTotals { got: 0, plt: 0, symtab_local: 0, symtab_global: 48, strtab: 4, dynsym: 72, dynstr: 6, file_header: 0, program_headers: 0, section_headers: 0, shstrtab: 0 } copied [Some("a"), Some("b")] symbols [(FileId { group: 0, file: 0 }, 24, 0, 1), (FileId { group: 1, file: 0 }, 0, 48, 4)] whole TableTotals { got: 0, plt: 0, symtab_local: 24, symtab_global: 48, strtab: 5, dynsym: 96, dynstr: 7, file_header: 64, program_headers: 56, section_headers: 64, shstrtab: 1 } parts [0, 0] headers HeaderSizes { file_header: 64, program_headers: 56, section_headers: 64, shstrtab: 1 } dynamic [SymbolId { number: 0 }, SymbolId { number: 0 }, SymbolId { number: 1 }]
{"plan":{"page":16,"sections":[{"attrs":1,"parts":[[1,false]]},{"attrs":1,"parts":[[1,false]]},{"attrs":1,"parts":[[1,false]]}],"segments":[{"kind":"load"}],"events":[["seg",0],["sec",0],["sec",1],["sec",2],["endseg",0]]},"groups":[[{"kind":"prelude","symbols":[{"at":["force"],"name":"f"},{"at":["force"],"name":"h","hidden":true},{"at":["start",0],"name":"s0"},{"at":["start",1],"name":"s1"},{"at":["end",0],"name":"e0"},{"at":["end",2],"name":"e2"}]}],[{"kind":"object","sections":[{"slot":"must","size":4},{"slot":"must","part":1,"size":4}]}]]} => first TableTotals { got: 0, plt: 0, symtab_local: 0, symtab_global: 0, strtab: 0, dynsym: 0, dynstr: 0, file_header: 0, program_headers: 0, section_headers: 0, shstrtab: 0 } copied [None, None, None, None, None, None] symbols [(FileId { group: 0, file: 0 }, 48, 72, 11), (FileId { group: 1, file: 0 }, 0, 0, 0)] whole TableTotals { got: 0, plt: 0, symtab_local: 48, symtab_global: 72, strtab: 11, dynsym: 0, dynstr: 0, file_header: 64, program_headers: 56, section_headers: 128, shstrtab: 2 } parts [0, 0, 0] headers HeaderSizes { file_header: 64, program_headers: 56, section_headers: 128, shstrtab: 2 } dynamic []
{"plan":{"page":16,"sections":[{"attrs":1,"parts":[[16,false],[8,false],[1,false]]}],"segments":[{"kind":"load"}],"events":[["seg",0],["sec",0],["endseg",0]],"plt":0,"got":1},"groups":[[{"kind":"prelude"}],[{"kind":"object","sections":[{"slot":"must","part":2,"size":4,"relocs":[[0,"PltRelative",0,0,false],[0,"GotTpOff",0,0,false]]}],"symbols":[{"at":["sec",0,0],"name":"x"}]}]]} => first TableTotals { got: 16, plt: 16, symtab_local: 0, symtab_global: 24, strtab: 2, dynsym: 0, dynstr: 0, file_header: 0, program_headers: 0, section_headers: 0, shstrtab: 0 } copied [Some("x")] symbols [(FileId { group: 0, file: 0 }, 24, 0, 1), (FileId { group: 1, file: 0 }, 0, 24, 2)] whole TableTotals { got: 16, plt: 16, symtab_local: 24, symtab_global: 24, strtab: 3, dynsym: 0, dynstr: 0, file_header: 64, program_headers: 56, section_headers: 64, shstrtab: 1 } parts [16, 16, 0] headers HeaderSizes { file_header: 64, program_headers: 56, section_headers: 64, shstrtab: 1 } dynamic []
{"plan":{"page":4096,"base":["num",4096],"sections":[{"name":"H","attrs":1,"parts":[[8,false],[4,false]]},{"name":"A","attrs":1,"parts":[[8,false]]},{"name":"B","attrs":1,"parts":[[1,false]]},{"name":"C","attrs":17,"parts":[[16,false]]}],"segments":[{"kind":"load"}],"events":[["seg",0],["sec",0],["sec",1],["sec",2],["sec",3],["endseg",0]],"file_header":0,"program_headers":1},"groups":[[{"kind":"prelude"}],[{"kind":"object","name":"a.o","sections":[{"slot":"must","part":2,"size":8},{"slot":"must","part":3,"size":7},{"slot":"must","part":4,"size":16}]}]]} => first TableTotals { got: 0, plt: 0, symtab_local: 0, symtab_global: 0, strtab: 0, dynsym: 0, dynstr: 0, file_header: 0, program_headers: 0, section_headers: 0, shstrtab: 0 } copied [] symbols [(FileId { group: 0, file: 0 }, 24, 0, 1), (FileId { group: 1, file: 0 }, 0, 0, 0)] whole TableTotals { got: 0, plt: 0, symtab_local: 24, symtab_global: 0, strtab: 1, dynsym: 0, dynstr: 0, file_header: 64, program_headers: 56, section_headers: 192, shstrtab: 6 } parts [64, 56, 0, 0, 0] headers HeaderSizes { file_header: 64, program_headers: 56, section_headers: 192, shstrtab: 6 } dynamic []
{"options":{"output":"shared"},"plan":{"page":16,"sections":[{"attrs":1,"parts":[[8,false],[1,false]]},{"attrs":1,"parts":[[4,false]]}],"segments":[{"kind":"load"}],"events":[["seg",0],["sec",0],["sec",1],["endseg",0]],"dynsym":0,"dynstr":1},"groups":[[{"kind":"prelude"}],[{"kind":"object","sections":[{"slot":"must","part":2,"size":4}],"symbols":[{"at":["sec",0,0],"name":"a"},{"at":["sec",0,0],"name":"bb"}]}]]} => first TableTotals { got: 0, plt: 0, symtab_local: 0, symtab_global: 48, strtab: 5, dynsym: 48, dynstr: 5, file_header: 0, program_headers: 0, section_headers: 0, shstrtab: 0 } copied [Some("a"), Some("bb")] symbols [(FileId { group: 0, file: 0 }, 24, 0, 1), (FileId { group: 1, file: 0 }, 0, 48, 5)] whole TableTotals { got: 0, plt: 0, symtab_local: 24, symtab_global: 48, strtab: 6, dynsym: 72, dynstr: 6, file_header: 64, program_headers: 56, section_headers: 128, shstrtab: 2 } parts [72, 6, 0] headers HeaderSizes { file_header: 64, program_headers: 56, section_headers: 128, shstrtab: 2 } dynamic [SymbolId { number: 0 }, SymbolId { number: 1 }]
{"plan":{"page":16,"sections":[{"attrs":1,"parts":[[8,false]]}],"segments":[{"kind":"load"}],"events":[["seg",0],["sec",0],["endseg",0]],"dynsym":0},"options":{"output":"shared"},"groups":[[{"kind":"prelude","symbols":[{"at":["redirect",["num",1],["none"],false]}]}]]} => first TableTotals { got: 0, plt: 0, symtab_local: 0, symtab_global: 0, strtab: 0, dynsym: 24, dynstr: 1, file_header: 0, program_headers: 0, section_headers: 0, shstrtab: 0 } copied [None] symbols [(FileId { group: 0, file: 0 }, 24, 0, 1)] whole TableTotals { got: 0, plt: 0, symtab_local: 24, symtab_global: 0, strtab: 1, dynsym: 48, dynstr: 2, file_header: 64, program_headers: 56, section_headers: 64, shstrtab: 1 } parts [48] headers HeaderSizes { file_header: 64, program_headers: 56, section_headers: 64, shstrtab: 1 } dynamic [SymbolId { number: 0 }]
{"plan":{"page":16,"sections":[{"attrs":5,"parts":[[1,false]]},{"attrs":1,"parts":[[8,false]]}],"segments":[{"kind":"load"}],"events":[["seg",0],["sec",0],["sec",1],["endseg",0]],"dynsym":1},"groups":[[{"kind":"prelude"}],[{"kind":"object","sections":[{"slot":"must","part":0,"size":4}],"symbols":[{"at":["sec",0,0],"name":"a","flags":2},{"at":["sec",0,0],"name":"b"}]}]],"options":{"output":"shared"}} => first TableTotals { got: 0, plt: 0, symtab_local: 0, symtab_global: 48, strtab: 4, dynsym: 72, dynstr: 6, file_header: 0, program_headers: 0, section_headers: 0, shstrtab: 0 } copied [Some("a"), Some("b")] symbols [(FileId { group: 0, file: 0 }, 24, 0, 1), (FileId { group: 1, file: 0 }, 0, 48, 4)] whole TableTotals { got: 0, plt: 0, symtab_local: 24, symtab_global: 48, strtab: 5, dynsym: 96, dynstr: 7, file_header: 64, program_headers: 56, section_headers: 128, shstrtab: 2 } parts [0, 96] headers HeaderSizes { file_header: 64, program_headers: 56, section_headers: 128, shstrtab: 2 } dynamic [SymbolId { number: 0 }, SymbolId { number: 0 }, SymbolId { number: 1 }]
{"plan":{"page":16,"sections":[{"attrs":0,"parts":[[8,false],[4,false]]},{"attrs":1,"parts":[[1,false]]}],"segments":[{"kind":"load"}],"events":[["seg",0],["sec",0],["sec",1],["endseg",0]],"symtab_local":0,"symtab_global":1},"groups":[[{"kind":"prelude"}],[{"kind":"object","sections":[{"slot":"must","part":2,"size":1}],"symbols":[{"at":["sec",0,0],"name":"x","flags":8}]}]]} => first TableTotals { got: 0, plt: 0, symtab_local: 0, symtab_global: 24, strtab: 2, dynsym: 0, dynstr: 0, file_header: 0, program_headers: 0, section_headers: 0, shstrtab: 0 } copied [Some("x")] symbols [(FileId { group: 0, file: 0 }, 24, 0, 1), (FileId { group: 1, file: 0 }, 0, 24, 2)] whole TableTotals { got: 0, plt: 0, symtab_local: 24, symtab_global: 24, strtab: 3, dynsym: 0, dynstr: 0, file_header: 64, program_headers: 56, section_headers: 128, shstrtab: 2 } parts [24, 24, 0] headers HeaderSizes { file_header: 64, program_headers: 56, section_headers: 128, shstrtab: 2 } dynamic []
{"plan":{"page":16,"sections":[{"attrs":0,"emit":"never","parts":[[8,false],[4,false]]},{"attrs":1,"parts":[[1,false]]}],"segments":[{"kind":"load"}],"events":[["seg",0],["sec",0],["sec",1],["endseg",0]],"symtab_local":0,"symtab_global":1},"groups":[[{"kind":"prelude"}],[{"kind":"object","sections":[{"slot":"must","part":2,"size":1}],"symbols":[{"at":["sec",0,0],"name":"x","flags":8}]}]]} => first TableTotals { got: 0, plt: 0, symtab_local: 0, symtab_global: 24, strtab: 2, dynsym: 0, dynstr: 0, file_header: 0, program_headers: 0, section_headers: 0, shstrtab: 0 } copied [Some("x")] symbols [(FileId { group: 0, file: 0 }, 24, 0, 1), (FileId { group: 1, file: 0 }, 0, 24, 2)] whole TableTotals { got: 0, plt: 0, symtab_local: 24, symtab_global: 24, strtab: 3, dynsym: 0, dynstr: 0, file_header: 64, program_headers: 56, section_headers: 64, shstrtab: 1 } parts [24, 24, 0] headers HeaderSizes { file_header: 64, program_headers: 56, section_headers: 64, shstrtab: 1 } dynamic []
{"plan":{"page":1,"sections":[{"attrs":1,"parts":[[1,false]]}],"strtab":0,"events":[["sec",0]]},"groups":[[{"kind":"prelude"}]]} => first TableTotals { got: 0, plt: 0, symtab_local: 0, symtab_global: 0, strtab: 0, dynsym: 0, dynstr: 0, file_header: 0, program_headers: 0, section_headers: 0, shstrtab: 0 } copied [] symbols [(FileId { group: 0, file: 0 }, 24, 0, 1)] whole TableTotals { got: 0, plt: 0, symtab_local: 24, symtab_global: 0, strtab: 1, dynsym: 0, dynstr: 0, file_header: 64, program_headers: 0, section_headers: 0, shstrtab: 0 } parts [1] headers HeaderSizes { file_header: 64, program_headers: 0, section_headers: 0, shstrtab: 0 } dynamic []
{"plan":{"page":16,"sections":[{"attrs":1,"parts":[[1,false]]}],"segments":[{"kind":"load"}],"events":[["seg",0],["sec",0],["endseg",0]]},"groups":[[{"kind":"prelude"}],[{"kind":"object","sections":[{"slot":"must","size":4}],"symbols":[{"at":["sec",0,0],"name":"x","flags":63}]}]]} => first TableTotals { got: 0, plt: 0, symtab_local: 0, symtab_global: 24, strtab: 2, dynsym: 0, dynstr: 0, file_header: 0, program_headers: 0, section_headers: 0, shstrtab: 0 } copied [Some("x")] symbols [(FileId { group: 0, file: 0 }, 24, 0, 1), (FileId { group: 1, file: 0 }, 0, 24, 2)] whole TableTotals { got: 0, plt: 0, symtab_local: 24, symtab_global: 24, strtab: 3, dynsym: 0, dynstr: 0, file_header: 64, program_headers: 56, section_headers: 64, shstrtab: 1 } parts [0] headers HeaderSizes { file_header: 64, program_headers: 56, section_headers: 64, shstrtab: 1 } dynamic []
{"plan":{"page":16,"sections":[{"attrs":0,"parts":[[8,false]]},{"attrs":0,"parts":[[1,false]]}],"segments":[],"events":[["sec",0],["sec",1]],"symtab_global":0},"groups":[[{"kind":"prelude"}],[{"kind":"dynamic","symbols":[{"at":["undef"],"name":"u"}]}],[{"kind":"object","sections":[{"slot":"must","part":1,"size":4,"relocs":[[0,"Relative",0,0,false]]}],"symbols":[{"at":["undef"],"weak":true,"def":0}]}]],"options":{"output":"partial"}} => first TableTotals { got: 0, plt: 0, symtab_local: 0, symtab_global: 24, strtab: 2, dynsym: 0, dynstr: 0, file_header: 0, program_headers: 0, section_headers: 0, shstrtab: 0 } copied [None, None] symbols [(FileId { group: 0, file: 0 }, 48, 0, 1), (FileId { group: 1, file: 0 }, 0, 24, 2), (FileId { group: 2, file: 0 }, 0, 0, 0)] whole TableTotals { got: 0, plt: 0, symtab_local: 48, symtab_global: 24, strtab: 3, dynsym: 0, dynstr: 0, file_header: 64, program_headers: 0, section_headers: 128, shstrtab: 2 } parts [24, 0] headers HeaderSizes { file_header: 64, program_headers: 0, section_headers: 128, shstrtab: 2 } dynamic []
{"options":{"output":"partial"},"plan":{"page":16,"sections":[{"name":"t","attrs":0,"parts":[[8,false]]},{"name":"uv","attrs":1,"parts":[[1,false]]},{"name":"s","attrs":1,"parts":[[1,false]]}],"segments":[],"events":[["sec",0],["sec",1],["sec",2]],"symtab_local":0,"singletons":2},"groups":[[{"kind":"prelude"}],[{"kind":"object","sections":[{"slot":"must","part":1,"size":1},{"slot":"must","part":2,"size":3,"name":"one"},{"slot":"unloaded","part":2,"name":"two"},{"slot":"must","part":2}]}]]} => first TableTotals { got: 0, plt: 0, symtab_local: 0, symtab_global: 0, strtab: 0, dynsym: 0, dynstr: 0, file_header: 0, program_headers: 0, section_headers: 0, shstrtab: 0 } copied [] symbols [(FileId { group: 0, file: 0 }, 96, 0, 1), (FileId { group: 1, file: 0 }, 0, 0, 0)] whole TableTotals { got: 0, plt: 0, symtab_local: 96, symtab_global: 0, strtab: 1, dynsym: 0, dynstr: 0, file_header: 64, program_headers: 0, section_headers: 192, shstrtab: 8 } parts [96, 0, 0] headers HeaderSizes { file_header: 64, program_headers: 0, section_headers: 192, shstrtab: 8 } dynamic []
{"options":{"output":"shared"},"plan":{"page":16,"sections":[{"name":"«1048576 times s»","attrs":1,"parts":[[8,false],[1,false]]},{"attrs":1,"parts":[[4,false]]}],"segments":[{"kind":"load"}],"events":[["seg",0],["sec",0],["sec",1],["endseg",0]],"dynsym":0,"dynstr":1},"groups":[[{"kind":"prelude"}],[{"kind":"object","sections":[{"slot":"must","part":2,"size":4}],"symbols":[{"at":["sec",0,0],"name":"«1048576 times a»"}]}]]} => first TableTotals { got: 0, plt: 0, symtab_local: 0, symtab_global: 24, strtab: 1048577, dynsym: 24, dynstr: 1048577, file_header: 0, program_headers: 0, section_headers: 0, shstrtab: 0 } copied [Some("long")] symbols [(FileId { group: 0, file: 0 }, 24, 0, 1), (FileId { group: 1, file: 0 }, 0, 24, 1048577)] whole TableTotals { got: 0, plt: 0, symtab_local: 24, symtab_global: 24, strtab: 1048578, dynsym: 48, dynstr: 1048578, file_header: 64, program_headers: 56, section_headers: 128, shstrtab: 1048578 } parts [48, 1048578, 0] headers HeaderSizes { file_header: 64, program_headers: 56, section_headers: 128, shstrtab: 1048578 } dynamic [SymbolId { number: 0 }]
{"options":{"output":"shared"},"plan":{"page":16,"sections":[{"attrs":1,"parts":[[8,false],[1,false]]},{"attrs":1,"parts":[[4,false]]}],"segments":[{"kind":"load"}],"events":[["seg",0],["sec",0],["sec",1],["endseg",0]],"dynsym":0,"dynstr":1},"groups":[[{"kind":"prelude"}],[{"kind":"object","sections":[{"slot":"must","part":2,"size":4}],"symbols":[{"at":["sec",0,0]}]}]]} => first TableTotals { got: 0, plt: 0, symtab_local: 0, symtab_global: 0, strtab: 0, dynsym: 24, dynstr: 1, file_header: 0, program_headers: 0, section_headers: 0, shstrtab: 0 } copied [None] symbols [(FileId { group: 0, file: 0 }, 24, 0, 1), (FileId { group: 1, file: 0 }, 0, 0, 0)] whole TableTotals { got: 0, plt: 0, symtab_local: 24, symtab_global: 0, strtab: 1, dynsym: 48, dynstr: 2, file_header: 64, program_headers: 56, section_headers: 128, shstrtab: 2 } parts [48, 2, 0] headers HeaderSizes { file_header: 64, program_headers: 56, section_headers: 128, shstrtab: 2 } dynamic [SymbolId { number: 0 }]
"#;

/// A name, or a word for it where it has a hundred bytes.
fn short_name(name: &str) -> &str {
    if name.len() < 100 { name } else { "long" }
}

/// Adds the name under which each symbol is copied, by the flags that the traversal gives it.
fn add_copies(
    alloc: Global,
    line: &mut String,
    link: &LinkInput,
    live: &Live,
) -> Result<(), AllocError>
    requires { IsWellFormed link.now }
{
    let mut names = Vec::new(alloc);
    let mut number = 0u32;
    for flags in live.flags.as_slice() {
        let copy = SymbolCopyInfo::new(link, SymbolId::from_u32(number), live, *flags);
        names.push(copy.map(|copy| short_name(copy.name())))?;
        number = number.saturating_add(1);
    }
    add(line, "copied", &names)
}

/// Adds whose the entries of the dynamic symbol table are.
fn add_dynamic(
    alloc: Global,
    line: &mut String,
    link: &LinkInput,
    live: &Live,
    header: &HeaderInfo,
) -> Result<(), AllocError>
    requires { IsWellFormed link.now }
{
    let table = dynamic_table(alloc, link, live, header)?;
    add(line, "dynamic", &table)
}

/// For each part the bytes that tables take there.
fn part_bytes(
    alloc: Global,
    link: &LinkInput,
    totals: &TableTotals,
) -> Result<Vec<u128>, AllocError> {
    let mut bytes = Vec::new(alloc);
    let mut part = 0u32;
    for _part in link.plan.sections.parts() {
        bytes.push(bytes_in_part(&link.plan.named, totals, PartId::from_u32(part)))?;
        part = part.saturating_add(1);
    }
    Ok(bytes)
}

/// Adds the bytes of the whole tables, and those in each part.
fn add_whole(
    alloc: Global,
    line: &mut String,
    link: &LinkInput,
    live: &Live,
    header: &HeaderInfo,
    shares: &[FileShare],
) -> Result<(), AllocError>
    requires { IsWellFormed link.now }
{
    let prelude = mark_prelude(link, &Small64, live, header.told.as_slice());
    let whole = whole_totals(link, &Small64, shares, prelude, header);
    add(line, "whole", &whole)?;
    add(line, "parts", &part_bytes(alloc, link, &whole)?)
}

/// Adds what each file's symbols take in the symbol table and its names.
fn add_symbols(
    alloc: Global,
    line: &mut String,
    link: &LinkInput,
    live: &Live,
    header: &HeaderInfo,
) -> Result<(), AllocError>
    requires { IsWellFormed link.now }
{
    let symbols = symbol_sizes(alloc, link, &Small64, live, header)?;
    add(line, "symbols", &symbols)
}

/// Adds what symbols take in tables, by what has headers and what files take first.
fn add_by_header(
    alloc: Global,
    line: &mut String,
    link: &LinkInput,
    live: &Live,
    header: &HeaderInfo,
    shares: &[FileShare],
) -> Result<(), AllocError>
    requires { IsWellFormed link.now }
{
    add_copies(alloc, line, link, live)?;
    add_symbols(alloc, line, link, live, header)?;
    add_whole(alloc, line, link, live, header, shares)?;
    add(line, "headers", &header_sizes(link, &Small64, header))?;
    add_dynamic(alloc, line, link, live, header)
}

/// Adds what symbols take in tables, by the sizes of the parts and what files take first.
fn add_taken(
    alloc: Global,
    line: &mut String,
    link: &LinkInput,
    live: &Live,
    sizes: &[u64],
    shares: &[FileShare],
) -> Result<(), AllocError>
    requires good { IsWellFormed link.now }
    requires sizes { length sizes.now ≡ length (all_parts link.now.plan.sections) }
{
    let header = determine_header_sizes(alloc, link, live, sizes)?;
    add_by_header(alloc, line, link, live, &header, shares)
}

/// Adds what symbols take in tables, by what input sections bring to the parts.
fn add_sized(
    alloc: Global,
    line: &mut String,
    link: &LinkInput,
    live: &Live,
    totals: &[PartTotal],
    shares: &[FileShare],
) -> Result<(), AllocError>
    requires good { IsWellFormed link.now }
    requires count { length totals.now ≡ length (all_parts link.now.plan.sections) }
{
    let first = first_totals(link, shares);
    add(line, "first", &first)?;
    let sizes = first_sizes(alloc, link, totals, shares)?;
    if sizes.len() == link.plan.sections.parts().len() {
        add_taken(alloc, line, link, live, &sizes, shares)
    } else {
        Ok(())
    }
}

/// Adds what the live symbols of a link take in tables.
fn add_counted(
    alloc: Global,
    line: &mut String,
    link: &LinkInput,
    live: &Live,
) -> Result<(), AllocError>
    requires good { IsWellFormed link.now }
    requires live { AreLive link.now live.now }
{
    let brought = symbol_shares(alloc, link, &Small64, live)?;
    let totals = content_totals(alloc, link, live, &[], &brought.commons)?;
    if totals.len() == link.plan.sections.parts().len() {
        add_sized(alloc, line, link, live, &totals, &brought.files)
    } else {
        Ok(())
    }
}

/// Adds what symbols take in tables, of a link that is well formed.
pub fn add_tables(alloc: Global, line: &mut String, link: &LinkInput) -> Result<(), AllocError> {
    if check_link(link).is_err() {
        return Ok(());
    }
    match traverse_alone(alloc, link) {
        Ok(live) => add_counted(alloc, line, link, &live),
        Err(_) => Ok(()),
    }
}

#[test]
fn symbols_take_entries_of_tables(rt: HostRuntime) -> Result<(), Fail> {
    expect_rows(&rt, rt.alloc(), Asked::Sizes(OfSizes::Tables), TABLES)
}
