//! What is live, what that brings to the parts, and which sections and segments are told.

ghost use Rattle.std.specs.Prelude.{◌≡◌, false, length};
ghost use Rattle.lk_link.specs.Parts.{all_parts};
ghost use Rattle.lk_link.specs.WellFormed.{IsWellFormed};
ghost use Rattle.lk_live.specs.Reach.{AreLive};

use crate::rows::{Asked, expect_rows};
use crate::sizes::OfSizes;
use lk_check::check_link;
use lk_input::read_link;
use lk_link::{LinkInput, Small64};
use lk_live::{Live, traverse_alone};
use lk_sizes::part_owners::plain_owners;
use lk_sizes::{
    HeaderInfo, PartContents, PartOwners, SizeError, image_addresses, part_sizes, part_sizes_with,
    propagate_section_attributes,
};
use lk_test_rows::{NO_FRAME, add, frame_of, framed};
use std::alloc::{AllocError, Global};
use std::test::Fail;
use std::thread::Threads;

/// One section of one part in a segment, and one of another in none; to the first go three sections of an object.
const LIVE: &str = r#"
{"plan":{"page":16,"sections":[{"attrs":1,"parts":[[8,false]]},{"attrs":16,"parts":[[4,true]]}],"segments":[{"kind":"load"},{"kind":"other"}],"events":[["sec",1],["seg",0],["sec",0],["endseg",0],["seg",1],["endseg",1]]},"groups":[[{"kind":"prelude"},{"kind":"object","sections":[{"slot":"must","size":7,"attrs":2},{"slot":"must"},{"slot":"must","size":8,"attrs":4}]}]]} => live (FileId { group: 0, file: 1 }, 0, 7) live (FileId { group: 0, file: 1 }, 1, 0) live (FileId { group: 0, file: 1 }, 2, 8)
"#;

/// What sections and images bring to each part, where images stand if each part starts 100 bytes behind its size, and what is
/// told of sections and segments.
const SIZES: &str = r#"
{"plan":{"page":16,"sections":[{"attrs":1,"parts":[[8,false]]},{"attrs":16,"parts":[[4,true]]}],"segments":[{"kind":"load"},{"kind":"other"}],"events":[["sec",1],["seg",0],["sec",0],["endseg",0],["seg",1],["endseg",1]]},"groups":[[{"kind":"prelude"},{"kind":"object","sections":[{"slot":"must","size":7,"attrs":2},{"slot":"must"},{"slot":"must","size":8,"attrs":4}]}]]} => parts [PartContents { bytes: 16, has_image: false, attrs: 6 }, PartContents { bytes: 0, has_image: false, attrs: 0 }] attributes [7, 16] sizes [16, 0] images [0, 0] headers ([true, false], [Some(0), None], [SegmentId { number: 0 }])
{"plan":{"page":16,"sections":[{"attrs":1,"parts":[[4,false],[1,false]]},{"attrs":1,"parts":[[1,true]]}],"segments":[{"kind":"load"}],"events":[["seg",0],["sec",0],["sec",1],["endseg",0]]},"groups":[[{"kind":"prelude"},{"kind":"object","sections":[{"slot":"must","size":3},{"slot":"must","part":1,"size":5},{"slot":"merge","part":1,"data":"6100","attrs":2},{"slot":"merge","part":2}]}]]} => parts [PartContents { bytes: 4, has_image: false, attrs: 0 }, PartContents { bytes: 11, has_image: true, attrs: 2 }, PartContents { bytes: 0, has_image: true, attrs: 0 }] attributes [3, 1] sizes [4, 11, 0] images [111, 100] headers ([true, false], [Some(0), None], [SegmentId { number: 0 }])
# With tables: entries of both kinds of one symbol; two exported symbols; headers, which keep no section; an export of the prelude,
# which keeps one; and the identity, which does as well.
{"plan":{"page":16,"sections":[{"attrs":1,"parts":[[16,false],[8,false],[1,false]]}],"segments":[{"kind":"load"}],"events":[["seg",0],["sec",0],["endseg",0]],"plt":0,"got":1},"groups":[[{"kind":"prelude"}],[{"kind":"object","sections":[{"slot":"must","part":2,"size":4,"relocs":[[0,"PltRelative",0,0,false],[0,"GotTpOff",0,0,false]]}],"symbols":[{"at":["sec",0,0],"name":"x"}]}]]} => parts [PartContents { bytes: 16, has_image: false, attrs: 0 }, PartContents { bytes: 16, has_image: false, attrs: 0 }, PartContents { bytes: 4, has_image: false, attrs: 0 }] attributes [1] sizes [16, 16, 4] images [0] headers ([true], [Some(0)], [SegmentId { number: 0 }])
{"options":{"output":"shared"},"plan":{"page":16,"sections":[{"attrs":1,"parts":[[8,false],[1,false]]},{"attrs":1,"parts":[[4,false]]}],"segments":[{"kind":"load"}],"events":[["seg",0],["sec",0],["sec",1],["endseg",0]],"dynsym":0,"dynstr":1},"groups":[[{"kind":"prelude"}],[{"kind":"object","sections":[{"slot":"must","part":2,"size":4}],"symbols":[{"at":["sec",0,0],"name":"a"},{"at":["sec",0,0],"name":"bb"}]}]]} => parts [PartContents { bytes: 72, has_image: false, attrs: 0 }, PartContents { bytes: 6, has_image: false, attrs: 0 }, PartContents { bytes: 4, has_image: false, attrs: 0 }] attributes [1, 1] sizes [72, 6, 4] images [0, 0] headers ([true, true], [Some(0), Some(1)], [SegmentId { number: 0 }])
{"plan":{"page":4096,"base":["num",4096],"sections":[{"name":"H","attrs":1,"parts":[[8,false],[4,false]]},{"name":"A","attrs":1,"parts":[[8,false]]},{"name":"B","attrs":1,"parts":[[1,false]]},{"name":"C","attrs":17,"parts":[[16,false]]}],"segments":[{"kind":"load"}],"events":[["seg",0],["sec",0],["sec",1],["sec",2],["sec",3],["endseg",0]],"file_header":0,"program_headers":1},"groups":[[{"kind":"prelude"}],[{"kind":"object","name":"a.o","sections":[{"slot":"must","part":2,"size":8},{"slot":"must","part":3,"size":7},{"slot":"must","part":4,"size":16}]}]]} => parts [PartContents { bytes: 64, has_image: false, attrs: 0 }, PartContents { bytes: 56, has_image: false, attrs: 0 }, PartContents { bytes: 8, has_image: false, attrs: 0 }, PartContents { bytes: 7, has_image: false, attrs: 0 }, PartContents { bytes: 16, has_image: false, attrs: 0 }] attributes [1, 1, 1, 17] sizes [64, 56, 8, 7, 16] images [0, 0, 0, 0] headers ([false, true, true, true], [None, Some(0), Some(1), Some(2)], [SegmentId { number: 0 }])
{"plan":{"page":16,"sections":[{"attrs":1,"parts":[[8,false]]}],"segments":[{"kind":"load"}],"events":[["seg",0],["sec",0],["endseg",0]],"dynsym":0},"options":{"output":"shared"},"groups":[[{"kind":"prelude","symbols":[{"at":["redirect",["num",1],["none"],false]}]}]]} => parts [PartContents { bytes: 48, has_image: false, attrs: 0 }] attributes [1] sizes [48] images [0] headers ([true], [Some(0)], [SegmentId { number: 0 }])
{"plan":{"page":16,"sections":[{"attrs":0,"parts":[[1,false]]}],"segments":[],"events":[["sec",0]],"comment":0},"groups":[[{"kind":"prelude"}]],"options":{"identity":"x"}} => parts [PartContents { bytes: 10, has_image: false, attrs: 0 }] attributes [0] sizes [10] images [0] headers ([true], [Some(0)], [])
# An identity without a text, and one of a megabyte.
@ {"plan":{"page":1,"sections":[{"parts":[[1,false]]}],"events":[["sec",0]],"comment":0},"groups":[[{"kind":"prelude"}]],"options":{"identity":"..."}}
 => parts [PartContents { bytes: 9, has_image: false, attrs: 0 }] attributes [0] sizes [9] images [0] headers ([true], [Some(0)], [])
«1048576 times x» => parts [PartContents { bytes: 1048585, has_image: false, attrs: 0 }] attributes [0] sizes [1048585] images [0] headers ([true], [Some(0)], [])
# A symbol of the prelude at the start of the second section keeps it where something asks for it and it has a name; then two sections
# have headers, and names of no bytes.
@ {"plan":{"page":16,"sections":[{"attrs":1,"parts":[[1,false]]},{"attrs":1,"parts":[[1,false]]},{"parts":[[8,false],[1,false]]}],"segments":[{"kind":"load"}],"events":[["seg",0],["sec",0],["sec",1],["endseg",0],["sec",2]],"section_headers":2,"shstrtab":3},"groups":[[{"kind":"prelude","symbols":[{"at":["start",1]...]}]]}
,"name":"s"}]}],[{"kind":"object","symbols":[{"at":["undef"],"def":0}],"sections":[{"slot":"must","size":4,"relocs":[[0,"Relative",0,0,false]]} => parts [PartContents { bytes: 4, has_image: false, attrs: 0 }, PartContents { bytes: 0, has_image: false, attrs: 0 }, PartContents { bytes: 128, has_image: false, attrs: 0 }, PartContents { bytes: 2, has_image: false, attrs: 0 }] attributes [1, 1, 0] sizes [4, 0, 128, 2] images [0, 0, 0] headers ([true, true, false], [Some(0), Some(1), None], [SegmentId { number: 0 }])
}]}],[{"kind":"object","symbols":[{"at":["undef"],"def":0}],"sections":[{"slot":"must","size":4,"relocs":[[0,"Relative",0,0,false]]} | ,"name":"s"}]}],[{"kind":"object","symbols":[{"at":["undef"],"def":0}],"sections":[{"slot":"must","size":4} => parts [PartContents { bytes: 4, has_image: false, attrs: 0 }, PartContents { bytes: 0, has_image: false, attrs: 0 }, PartContents { bytes: 64, has_image: false, attrs: 0 }, PartContents { bytes: 1, has_image: false, attrs: 0 }] attributes [1, 1, 0] sizes [4, 0, 64, 1] images [0, 0, 0] headers ([true, false, false], [Some(0), None, None], [SegmentId { number: 0 }])
# Tables in sections that aren't emitted: the byte before all names keeps none, and entries none that is never emitted. A discarded
# section that names a table's part takes nothing of it.
@ ...
{"plan":{"page":1,"sections":[{"attrs":1,"parts":[[1,false]]}],"events":[["sec",0]],"strtab":0},"groups":[[{"kind":"prelude"}]]} => parts [PartContents { bytes: 1, has_image: false, attrs: 0 }] attributes [1] sizes [1] images [0] headers ([false], [None], [])
{"plan":{"page":1,"sections":[{"parts":[[8,false]],"emit":"never"},{"parts":[[1,false]]}],"events":[["sec",0],["sec",1]],"got":0},"groups":[[{"kind":"prelude"}],[{"kind":"object","symbols":[{"at":["abs",1]}],"sections":[{"slot":"must","part":1,"size":1,"relocs":[[0,"Got",0,0,false]]}]}]]} => parts [PartContents { bytes: 8, has_image: false, attrs: 0 }, PartContents { bytes: 1, has_image: false, attrs: 0 }] attributes [0, 0] sizes [8, 1] images [0, 0] headers ([false, true], [None, Some(0)], [])
{"plan":{"page":1,"sections":[{"parts":[[8,false],[1,false]]}],"events":[["sec",0]],"got":0},"groups":[[{"kind":"prelude"}],[{"kind":"object","symbols":[{"at":["abs",1]}],"sections":[{"slot":"discard","part":0,"size":4,"relocs":[[9,"Got",77,0,false]]},{"slot":"must","part":1,"size":2}]}]]} => parts [PartContents { bytes: 0, has_image: false, attrs: 0 }, PartContents { bytes: 2, has_image: false, attrs: 0 }] attributes [0] sizes [0, 2] images [0] headers ([true], [Some(0)], [])
"#;

/// The bytes of three parts, which together are at most 2^64 - 1; or the first part at which they pass it.
const SUMS: &str = r#"
# Output that is linked again: a table of local symbols has one for itself and one for a section with a part that is no table. A sorted
# section takes what others do.
{"options":{"output":"partial"},"plan":{"page":16,"sections":[{"parts":[[8,false]],"emit":"always"},{"parts":[[1,false]]}],"events":[["sec",0],["sec",1]],"symtab_local":0},"groups":[[{"kind":"prelude"}],[{"kind":"object","sections":[{"slot":"must","part":1,"size":4}]}]]} => sizes [48, 4]
{"plan":{"page":16,"sections":[{"attrs":1,"parts":[[8,false]]}],"segments":[{"kind":"load"}],"events":[["seg",0],["sec",0],["endseg",0]]},"groups":[[{"kind":"prelude"}],[{"kind":"object","sections":[{"slot":"must","size":3,"name":"a","sorted":true},{"slot":"must","size":9}]}]]} => sizes [24]
@ {"plan":{"page":16,"sections":[{"attrs":1,"parts":[[1,false]]},{"attrs":1,"parts":[[8,false],[1,false]]}],"segments":[{"kind":"load"}],"events":[["seg",0],["sec",0],["sec",1],["endseg",0]]},"groups":[[{"kind":"prelude"}],[{"kind":"object",...}]]}
# Sections of one part and of several, with the bytes up to the alignment.
"sections":[{"slot":"must","size":18446744073709551615}] => sizes [18446744073709551615, 0, 0]
"sections":[{"slot":"must","size":18446744073709551614},{"slot":"must","size":1}] => sizes [18446744073709551615, 0, 0]
"sections":[{"slot":"must","size":18446744073709551615},{"slot":"must","size":18446744073709551615}] => refused AddressOverflow { place: Part(0) }
"sections":[{"slot":"must","size":18446744073709551607},{"slot":"must","part":1,"size":1}] => sizes [18446744073709551607, 8, 0]
"sections":[{"slot":"must","size":18446744073709551608},{"slot":"must","part":1,"size":1}] => refused AddressOverflow { place: Part(1) }
"sections":[{"slot":"must","part":1,"size":18446744073709551608}] => sizes [0, 18446744073709551608, 0]
"sections":[{"slot":"must","part":1,"size":18446744073709551609}] => refused AddressOverflow { place: Part(1) }
"sections":[{"slot":"must","part":2,"size":1},{"slot":"must","size":18446744073709551614}] => sizes [18446744073709551614, 0, 1]
"sections":[{"slot":"must","part":2,"size":2},{"slot":"must","size":18446744073709551614}] => refused AddressOverflow { place: Part(2) }
# What isn't live takes nothing.
"sections":[{"slot":"unloaded","size":18446744073709551615},{"slot":"must","size":18446744073709551615}] => sizes [18446744073709551615, 0, 0]
# Commons, one that nothing asks for, and a merged image of 6 bytes.
"symbols":[{"at":["common",0,18446744073709551614]}],"sections":[{"slot":"must","size":1,"relocs":[[0,"Absolute",0,0,false]]}] => sizes [18446744073709551615, 0, 0]
"symbols":[{"at":["common",0,18446744073709551615]}],"sections":[{"slot":"must","size":1,"relocs":[[0,"Absolute",0,0,false]]}] => refused AddressOverflow { place: Part(0) }
"symbols":[{"at":["common",1,18446744073709551607]}],"sections":[{"slot":"must","size":8,"relocs":[[0,"Absolute",0,0,false]]}] => refused AddressOverflow { place: Part(1) }
"symbols":[{"at":["common",0,18446744073709551615]}],"sections":[{"slot":"must","size":1}] => sizes [1, 0, 0]
"sections":[{"slot":"merge","data":"6100"},{"slot":"must","size":18446744073709551609}] => sizes [18446744073709551615, 0, 0]
"sections":[{"slot":"merge","data":"6100"},{"slot":"must","size":18446744073709551610}] => refused AddressOverflow { place: Part(0) }
# A table's bytes: the empty name that begins the names of symbols, and the names of the emitted sections. The identity's.
@ {"options":{"identity":"x"},"plan":{"page":1,"sections":[{"parts":[[1,false]]},{"parts":[[1,false]]},{"parts":[[1,false]]}],"events":[["sec",0],["sec",1],["sec",2]],...}]}]]}
"strtab":0},"groups":[[{"kind":"prelude"}],[{"kind":"object","sections":[{"slot":"must","part":1,"size":18446744073709551614 => sizes [1, 18446744073709551614, 0]
"strtab":0},"groups":[[{"kind":"prelude"}],[{"kind":"object","sections":[{"slot":"must","part":1,"size":18446744073709551615},{"slot":"must","part":2,"size":1 => refused AddressOverflow { place: Part(1) }
"shstrtab":0},"groups":[[{"kind":"prelude"}],[{"kind":"object","sections":[{"slot":"must","part":1,"size":18446744073709551614 => sizes [1, 18446744073709551614, 0]
"shstrtab":0},"groups":[[{"kind":"prelude"}],[{"kind":"object","sections":[{"slot":"must","part":1,"size":18446744073709551614},{"slot":"must","part":2,"size":9223372036854775808},{"slot":"must","part":2,"size":9223372036854775808 => refused AddressOverflow { place: Part(1) }
"comment":0},"groups":[[{"kind":"prelude"}],[{"kind":"object","sections":[{"slot":"must","part":1,"size":18446744073709551605 => sizes [10, 18446744073709551605, 0]
"comment":0},"groups":[[{"kind":"prelude"}],[{"kind":"object","sections":[{"slot":"must","part":1,"size":18446744073709551606 => refused AddressOverflow { place: Part(1) }
# All that one part can hold: the image, the identity, a section and a common.
"comment":0},"groups":[[{"kind":"prelude"}],[{"kind":"object","symbols":[{"at":["common",0,3]}],"sections":[{"slot":"merge","data":"616263646566"},{"slot":"must","size":18446744073709551596,"relocs":[[0,"Absolute",0,0,false]] => sizes [18446744073709551615, 0, 0]
"comment":0},"groups":[[{"kind":"prelude"}],[{"kind":"object","symbols":[{"at":["common",0,3]}],"sections":[{"slot":"merge","data":"616263646566"},{"slot":"must","size":18446744073709551597,"relocs":[[0,"Absolute",0,0,false]] => refused AddressOverflow { place: Part(0) }
# Tables before and behind a section of part 1, with one byte too many. By itself none comes near the end: 16,777,216 symbols take
# 48 bytes each at most, their names and those of sections 2^31, and 65,279 sections and 64 segments have headers.
@ {"groups":[[{"kind":"prelude"}],[{"kind":"object","symbols":[{"at":["abs",1],"name":"a"}],"sections":[{"slot":"must","part":1,"size":...,"page":1,"sections":[{"parts":[[1,false]]},{"parts":[[1,false]]},{"parts":[[1,false]]}],"events":[["sec",0],["sec",1],["sec",2]]}}
18446744073709551607,"relocs":[[0,"Got",0,0,false]]}]}]],"plan":{"got":0 => sizes [8, 18446744073709551607, 0]
18446744073709551608,"relocs":[[0,"Got",0,0,false]]}]}]],"plan":{"got":0 => refused AddressOverflow { place: Part(1) }
18446744073709551607,"relocs":[[0,"Got",0,0,false]]}]}]],"plan":{"got":2 => sizes [0, 18446744073709551607, 8]
18446744073709551608,"relocs":[[0,"Got",0,0,false]]}]}]],"plan":{"got":2 => refused AddressOverflow { place: Part(2) }
18446744073709551567,"relocs":[[0,"Got",0,0,false],[0,"GotTpOff",0,0,false],[0,"TlsGd",0,0,false],[0,"TlsDesc",0,0,false]]}]}]],"plan":{"got":0 => sizes [48, 18446744073709551567, 0]
18446744073709551568,"relocs":[[0,"Got",0,0,false],[0,"GotTpOff",0,0,false],[0,"TlsGd",0,0,false],[0,"TlsDesc",0,0,false]]}]}]],"plan":{"got":0 => refused AddressOverflow { place: Part(1) }
18446744073709551591,"relocs":[[0,"PltRelative",0,0,false]]}]}]],"plan":{"plt":0,"got":2 => sizes [16, 18446744073709551591, 8]
18446744073709551592,"relocs":[[0,"PltRelative",0,0,false]]}]}]],"plan":{"plt":0,"got":2 => refused AddressOverflow { place: Part(2) }
18446744073709551591,"relocs":[[0,"PltRelative",0,0,false]]}]}]],"plan":{"got":0,"plt":2 => sizes [8, 18446744073709551591, 16]
18446744073709551592,"relocs":[[0,"PltRelative",0,0,false]]}]}]],"plan":{"got":0,"plt":2 => refused AddressOverflow { place: Part(2) }
18446744073709551591}]}]],"plan":{"symtab_local":0 => sizes [24, 18446744073709551591, 0]
18446744073709551592}]}]],"plan":{"symtab_local":0 => refused AddressOverflow { place: Part(1) }
18446744073709551591}]}]],"plan":{"symtab_local":2 => sizes [0, 18446744073709551591, 24]
18446744073709551592}]}]],"plan":{"symtab_local":2 => refused AddressOverflow { place: Part(2) }
18446744073709551591}]}]],"plan":{"symtab_global":0 => sizes [24, 18446744073709551591, 0]
18446744073709551592}]}]],"plan":{"symtab_global":0 => refused AddressOverflow { place: Part(1) }
18446744073709551567}]}]],"plan":{"symtab_local":0,"symtab_global":2 => sizes [24, 18446744073709551567, 24]
18446744073709551568}]}]],"plan":{"symtab_local":0,"symtab_global":2 => refused AddressOverflow { place: Part(2) }
18446744073709551612}]}]],"plan":{"strtab":2 => sizes [0, 18446744073709551612, 3]
18446744073709551613}]}]],"plan":{"strtab":2 => refused AddressOverflow { place: Part(2) }
18446744073709551551}]}]],"plan":{"file_header":0 => sizes [64, 18446744073709551551, 0]
18446744073709551552}]}]],"plan":{"file_header":0 => refused AddressOverflow { place: Part(1) }
18446744073709551551}]}]],"plan":{"file_header":2 => sizes [0, 18446744073709551551, 64]
18446744073709551552}]}]],"plan":{"file_header":2 => refused AddressOverflow { place: Part(2) }
18446744073709551551}]}]],"plan":{"section_headers":0 => sizes [64, 18446744073709551551, 0]
18446744073709551552}]}]],"plan":{"section_headers":0 => refused AddressOverflow { place: Part(1) }
18446744073709551550}]}]],"plan":{"section_headers":2,"shstrtab":0 => sizes [1, 18446744073709551550, 64]
18446744073709551551}]}]],"plan":{"section_headers":2,"shstrtab":0 => refused AddressOverflow { place: Part(2) }
@ {"options":{"output":"shared"},"groups":[[{"kind":"prelude"}],[{"kind":"object","symbols":[{"at":["abs",1],"name":"a"}],"sections":[{"slot":"must","part":1,"size":...,"page":1,"sections":[{"parts":[[1,false]]},{"parts":[[1,false]]},{"parts":[[1,false]]}],"events":[["sec",0],["sec",1],["sec",2]]}}
18446744073709551567}]}]],"plan":{"dynsym":0 => sizes [48, 18446744073709551567, 0]
18446744073709551568}]}]],"plan":{"dynsym":0 => refused AddressOverflow { place: Part(1) }
18446744073709551567}]}]],"plan":{"dynsym":2 => sizes [0, 18446744073709551567, 48]
18446744073709551568}]}]],"plan":{"dynsym":2 => refused AddressOverflow { place: Part(2) }
18446744073709551612}]}]],"plan":{"dynstr":2 => sizes [0, 18446744073709551612, 3]
18446744073709551613}]}]],"plan":{"dynstr":2 => refused AddressOverflow { place: Part(2) }
18446744073709551564}]}]],"plan":{"dynsym":0,"dynstr":2 => sizes [48, 18446744073709551564, 3]
18446744073709551565}]}]],"plan":{"dynsym":0,"dynstr":2 => refused AddressOverflow { place: Part(2) }
@ {"plan":{"page":1,"sections":[{"parts":[[1,false]]},{"parts":[[1,false]]}],"segments":[{"kind":"stack"},{"kind":"load","always":true}],"events":[["seg",0],["sec",0],["endseg",0],["seg",1],["sec",1],["endseg",1]],"program_headers":...}]}]]}
0},"groups":[[{"kind":"prelude"}],[{"kind":"object","sections":[{"slot":"must","part":1,"size":18446744073709551503 => sizes [112, 18446744073709551503]
0},"groups":[[{"kind":"prelude"}],[{"kind":"object","sections":[{"slot":"must","part":1,"size":18446744073709551504 => refused AddressOverflow { place: Part(1) }
1},"groups":[[{"kind":"prelude"}],[{"kind":"object","sections":[{"slot":"must","part":0,"size":18446744073709551503 => sizes [18446744073709551503, 112]
1},"groups":[[{"kind":"prelude"}],[{"kind":"object","sections":[{"slot":"must","part":0,"size":18446744073709551504 => refused AddressOverflow { place: Part(1) }
# Where output is linked again, a table counts the sections whose edges are told: one that is a table alone isn't, though it is emitted.
@ {"options":{"output":"partial"},"plan":{"page":16,"sections":[{"parts":[[8,false]],"emit":"always"},{"parts":[[1,false]]}],"events":[["sec",0],["sec",1]],"symtab_local":0},"groups":[[{"kind":"prelude"}],[{"kind":"object",...}]]}
"sections":[{"slot":"must","part":1,"size":4}] => sizes [48, 4]
"#;

/// The lengths of the images of the first two output sections, where something is merged there.
const MERGED_LENS: &[u64] = &[6, 0];

/// Sections of a prelude, an object and a dynamic file.
const OTHER_FILES: &str = "
p00 o00 d00 => live (FileId { group: 1, file: 0 }, 0, 0) live (FileId { group: 1, file: 0 }, 1, 0)
";

/// Adds file, index and size of each live section of groups and files that aren't too many.
fn add_inputs(line: &mut String, link: &LinkInput, live: &Live) -> Result<(), AllocError> {
    if link.groups.len() <= 65535 && link.groups.file_count() <= 16777216 {
        for input in live.inputs(link) {
            add(line, "live", &(input.file, input.index, input.section.size))?;
        }
    }
    Ok(())
}

/// Adds what is live, of a link that is well formed.
pub fn add_live(alloc: Global, line: &mut String, link: &LinkInput) -> Result<(), AllocError> {
    if check_link(link).is_err() {
        return Ok(());
    }
    match traverse_alone(alloc, link) {
        Ok(live) => add_inputs(line, link, &live),
        Err(_) => Ok(()),
    }
}

/// Adds which sections and segments are told.
fn add_headers(line: &mut String, header: &HeaderInfo) -> Result<(), AllocError> {
    let (indexes, active) = (
        header.output_section_indexes.as_slice(),
        header.active_segment_ids.as_slice(),
    );
    add(
        line,
        "headers",
        &(header.emitted.as_slice(), indexes, active),
    )
}

/// For each part a start, 100 bytes behind its size.
fn starts_behind(alloc: Global, sizes: &[u64]) -> Result<Vec<u64>, AllocError> {
    let mut starts = Vec::with_capacity(alloc, sizes.len())?;
    for size in sizes {
        starts.push(size.saturating_add(100))?;
    }
    Ok(starts)
}

/// Adds where images stand, by these starts, where there is one for each part.
fn add_images(
    alloc: Global,
    line: &mut String,
    link: &LinkInput,
    contents: &[PartContents],
    starts: &[u64],
) -> Result<(), AllocError>
    requires { length contents.now ≡ length (all_parts link.now.plan.sections) }
{
    if starts.len() == contents.len() {
        let images = image_addresses(alloc, link, contents, starts)?;
        add(line, "images", &images)
    } else {
        Ok(())
    }
}

/// Adds what comes into each part, the sizes, and what that makes of images.
fn add_counted(
    alloc: Global,
    line: &mut String,
    link: &LinkInput,
    live: &Live,
    owners: &PartOwners,
) -> Result<(), AllocError>
    requires good { IsWellFormed link.now }
    requires live { AreLive link.now live.now }
    requires count { length owners.now.contents ≡ length (all_parts link.now.plan.sections) }
{
    let contents = owners.contents();
    add(line, "parts", &contents)?;
    let attributes = propagate_section_attributes(alloc, link, live)?;
    add(line, "attributes", &attributes)?;
    let sizes = part_sizes(alloc, owners)?;
    add(line, "sizes", &sizes)?;
    let starts = starts_behind(alloc, &sizes)?;
    add_images(alloc, line, link, contents, &starts)
}

/// Adds the same, where there are contents for each part, and which sections and segments are told.
fn add_owners(
    alloc: Global,
    line: &mut String,
    link: &LinkInput,
    live: &Live,
    owners: &PartOwners,
) -> Result<(), AllocError>
    requires good { IsWellFormed link.now }
    requires live { AreLive link.now live.now }
{
    if owners.contents().len() == link.plan.sections.parts().len() {
        add_counted(alloc, line, link, live, owners)?;
    }
    add_headers(line, owners.header())
}

/// Adds what comes into each part, and what that makes of images, sections and segments.
fn add_brought(
    alloc: Global,
    line: &mut String,
    link: &LinkInput,
    live: &Live,
) -> Result<(), AllocError>
    requires good { IsWellFormed link.now }
    requires live { AreLive link.now live.now }
{
    match plain_owners(alloc, link, &Small64, live, MERGED_LENS) {
        Ok(owners) => add_owners(alloc, line, link, live, &owners),
        Err(_) => Ok(()),
    }
}

/// Adds what comes into each part, and what that makes of images, sections and segments, of a link that is well formed, and
/// whose sizes aren't refused.
pub fn add_sizes(alloc: Global, line: &mut String, link: &LinkInput) -> Result<(), AllocError> {
    if check_link(link).is_err() {
        return Ok(());
    }
    match traverse_alone(alloc, link) {
        Ok(live) => add_brought(alloc, line, link, &live),
        Err(_) => Ok(()),
    }
}

/// Adds the bytes of all parts by whose they are, as several threads tell them, or why there are none.
fn add_part_sizes(
    rt: &(impl Threads + Sync),
    alloc: Global,
    line: &mut String,
    owners: &Result<PartOwners, SizeError>,
) -> Result<(), AllocError> {
    match owners {
        Ok(owners) => add(line, "sizes", &part_sizes_with(rt, alloc, owners)?),
        Err(SizeError::NoMemory) => Err(AllocError),
        Err(error) => add(line, "refused", error),
    }
}

/// The same of a link, by what is live.
fn add_sums_of(
    rt: &(impl Threads + Sync),
    alloc: Global,
    line: &mut String,
    link: &LinkInput,
    live: &Live,
) -> Result<(), AllocError>
    requires good { IsWellFormed link.now }
    requires live { AreLive link.now live.now }
{
    let owners = plain_owners(alloc, link, &Small64, live, MERGED_LENS);
    add_part_sizes(rt, alloc, line, &owners)
}

/// Adds the bytes of all parts of a link that is well formed, or why there are none.
pub fn add_sums(
    rt: &(impl Threads + Sync),
    alloc: Global,
    line: &mut String,
    link: &LinkInput,
) -> Result<(), AllocError> {
    if check_link(link).is_err() {
        return Ok(());
    }
    match traverse_alone(alloc, link) {
        Ok(live) => add_sums_of(rt, alloc, line, link, &live),
        Err(_) => Ok(()),
    }
}

/// A description with 17 parts in each of 121 sections, and a section of an object in the first part, one in another, and one in the last.
const MANY_PARTS: &str =
    r#"{"plan":{"page":16,"sections":[«121 of {"parts":[[65536,false],[32768,false],[16384,false],[8192,false],[4096,false],[2048,false],[1024,false],[512,false],[256,false],[128,false],[64,false],[32,false],[16,false],[8,false],[4,false],[2,false],[1,false]]}»],"events":[...]},"groups":[[{"kind":"prelude"}],[{"kind":"object","sections":[{"slot":"must","size":3},{"slot":"must","part":1024,"size":1},{"slot":"must","part":2056,"size":5}]}]]}"#;

/// The events of 121 sections.
fn many_events(alloc: Global) -> Result<String, AllocError> {
    let mut events = String::from_str(alloc, r#"["sec",0]"#)?;
    for section in 1..121 {
        write!(events, ",[\"sec\",{section}]")?;
    }
    Ok(events)
}

/// The bytes of the 2,057 parts of that description, as several threads tell them: so many parts are more than one thread's.
fn told_many_parts(rt: &(impl Threads + Sync), alloc: Global) -> Result<String, AllocError> {
    let events = many_events(alloc)?;
    let text = framed(alloc, frame_of(MANY_PARTS), events.as_str())?;
    let mut line = String::new(alloc);
    match read_link(alloc, text.as_bytes()) {
        Ok(link) => add_sums(rt, alloc, &mut line, &link)?,
        Err(error) => write!(line, "no link: {error}")?,
    }
    Ok(line)
}

#[test]
fn many_parts_are_told_by_threads(rt: HostRuntime) -> Result<(), Fail> {
    let alloc = rt.alloc();
    let line = told_many_parts(&rt, alloc)?;
    let want = framed(
        alloc,
        NO_FRAME,
        "sizes [65536, «1023 times 0, »4096, «1031 times 0, »5]",
    )?;
    assert_eq!(&rt; line.as_str(), want.as_str());
    Ok(())
}

#[test]
fn sums_end_at_the_greatest_number(rt: HostRuntime) -> Result<(), Fail> {
    expect_rows(&rt, rt.alloc(), Asked::Sizes(OfSizes::Sums), SUMS)
}

#[test]
fn sections_of_objects_are_live(rt: HostRuntime) -> Result<(), Fail> {
    expect_rows(&rt, rt.alloc(), Asked::Sizes(OfSizes::Live), LIVE)
}

#[test]
fn sections_of_other_files_are_not_live(rt: HostRuntime) -> Result<(), Fail> {
    expect_rows(
        &rt,
        rt.alloc(),
        Asked::Sizes(OfSizes::HandMadeLive),
        OTHER_FILES,
    )
}

#[test]
fn parts_have_contents_and_sections_indexes(rt: HostRuntime) -> Result<(), Fail> {
    expect_rows(&rt, rt.alloc(), Asked::Sizes(OfSizes::Sizes), SIZES)
}
