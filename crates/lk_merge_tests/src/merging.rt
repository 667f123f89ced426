//! What is merged: what is kept of the pieces of each output section, where offsets are, how inputs are cut into groups, and
//! which addresses symbols have; and the calls on a bucket, on pieces and on offsets.

ghost use Rattle.std.specs.Prelude.{◌≡◌, ◌≤◌, ◌<◌, ◌%◌, ◌^◌};
ghost use Rattle.lk_link.specs.WellFormed.{IsWellFormed};
ghost use Rattle.lk_merge.specs.Addresses.{AreStartsOf};
ghost use Rattle.lk_merge.specs.LinkInputs.{link_inputs};

use crate::rows::{Asked, expect_rows, expect_text};
use lk_check::check_link;
use lk_input::read_link;
use lk_link::{FileId, Gate, LinkInput, List, NoGate, OutputSectionId, Relocation, SymbolId};
use lk_merge::{
    BucketOffset, LinearInputOffset, MergeError, MergeString, MergeStringsSectionBucket,
    MergedStringStartAddresses, MergedStringsSection, StringMergeInputSections, StringMergeInputs,
    find_string, get_merged_string_output_address, merge_strings, merge_strings_alone,
    split_sections, total_input_size,
};
use lk_test_rows::add;
use std::alloc::{AllocError, Global};
use std::sync::Wait;
use std::sync::atomic::{AtomicU64, Ordering};
use std::test::Fail;
use std::thread::{Threads, yield_now};

/// What is told of merging.
#[derive(Clone, Copy)]
pub enum Merging {
    /// What each output section keeps.
    Kept,
    /// Where offsets of each input are.
    Places,
    /// How many starts stand past the twelfth of their blocks, and where offsets around them are.
    Starts,
    /// The groups into which inputs are cut.
    Groups,
    /// The addresses that relocations have of symbols.
    Addresses,
}

/// Of each output section the buckets, distinct pieces, pieces, their bytes and the image's bytes, and what each bucket holds;
/// or the refusal.
const KEPT: &str = r#"
# One section of strings.
@ {"plan":{"page":16,"sections":[{"attrs":1,"parts":[[1,false]]}],"events":[["sec",0]]},"groups":[[{"kind":"prelude"}],[{"kind":"object","sections":[{"slot":"merge","strings":true,"data":"..."}]}]]}
610062006100 => section (16, 2, 3, 6, 4) bucket (4, 2) piece [97, 0] bucket (15, 2) piece [98, 0]
62006100 => section (16, 2, 2, 4, 4) bucket (4, 2) piece [97, 0] bucket (15, 2) piece [98, 0]
 => section (16, 0, 0, 0, 0)
00 => section (16, 1, 1, 1, 1) bucket (15, 1) piece [0]
000000 => section (16, 1, 3, 3, 1) bucket (15, 1) piece [0]
616263 => refused NotTerminated { section: OutputSectionId { number: 0 }, input: 0 }
610062 => refused NotTerminated { section: OutputSectionId { number: 0 }, input: 0 }
# Several sections of one output section.
@ {"plan":{"page":16,"sections":[{"attrs":1,"parts":[[1,false]]}],"events":[["sec",0]]},"groups":[[{"kind":"prelude"}],[{"kind":"object","sections":[...]}]]}
{"slot":"merge","strings":true,"data":"6100"},{"slot":"merge","strings":true,"data":"616200"} => section (16, 2, 2, 5, 5) bucket (4, 2) piece [97, 0] bucket (14, 3) piece [97, 98, 0]
{"slot":"merge","data":"01020304"},{"slot":"merge","data":"01020304"} => section (16, 1, 2, 8, 4) bucket (13, 4) piece [1, 2, 3, 4]
{"slot":"merge","strings":true,"data":"6100"},{"slot":"merge","data":"6100"},{"slot":"merge","data":""},{"slot":"merge","strings":true,"data":""} => section (16, 1, 2, 4, 2) bucket (4, 2) piece [97, 0]
{"slot":"merge","data":"6162"},{"slot":"merge","strings":true,"data":"6100"},{"slot":"merge","strings":true,"data":"6162"} => refused NotTerminated { section: OutputSectionId { number: 0 }, input: 2 }
{"slot":"must","size":1} => section (0, 0, 0, 0, 0)
# How long buckets may be: of two strings in one, of one string that is there twice, of two in two.
@ {"options":{"bucket_limit":...},"plan":{"page":16,"sections":[{"attrs":1,"parts":[[1,false]]}],"events":[["sec",0]]},"groups":[[{"kind":"prelude"}],[{"kind":"object","sections":[{"slot":"merge","strings":true,"data":"61007100"}]}]]}
4 => section (16, 2, 2, 4, 4) bucket (4, 4) piece [97, 0] piece [113, 0]
3 => refused TooLarge { section: OutputSectionId { number: 0 }, bucket: 4, offset: 2, len: 2 }
268435456 => section (16, 2, 2, 4, 4) bucket (4, 4) piece [97, 0] piece [113, 0]
@ {"options":{"bucket_limit":...},"plan":{"page":16,"sections":[{"attrs":1,"parts":[[1,false]]}],"events":[["sec",0]]},"groups":[[{"kind":"prelude"}],[{"kind":"object","sections":[{"slot":"merge","strings":true,"data":"61006100"}]}]]}
2 => section (16, 1, 2, 4, 2) bucket (4, 2) piece [97, 0]
1 => refused TooLarge { section: OutputSectionId { number: 0 }, bucket: 4, offset: 0, len: 2 }
0 => refused TooLarge { section: OutputSectionId { number: 0 }, bucket: 4, offset: 0, len: 2 }
# The link of a load segment.
@ {"plan":{"page":16,"sections":[{"attrs":1,"parts":[[1,false]]}],"segments":[{"kind":"load"}],"events":[["seg",0],["sec",0],["endseg",0]]},"groups":[[{"kind":"prelude"}],[{"kind":"object","sections":[{"slot":"merge","part":0,"strings":true,"data":"62006100"}]}]],"options":{"bucket_limit":...}}
1 => refused TooLarge { section: OutputSectionId { number: 0 }, bucket: 4, offset: 0, len: 2 }
@ {"options":{"bucket_limit":...},"plan":{"page":16,"sections":[{"attrs":1,"parts":[[1,false]]}],"events":[["sec",0]]},"groups":[[{"kind":"prelude"}],[{"kind":"object","sections":[{"slot":"merge","strings":true,"data":""}]}]]}
0 => section (16, 0, 0, 0, 0)
# Two output sections: in the first with a refusal, that of an input stands before that of a piece.
@ {"options":{"bucket_limit":1},"plan":{"page":16,"sections":[{"attrs":1,"parts":[[1,false]]},{"attrs":1,"parts":[[1,false]]}],"events":[["sec",0],["sec",1]]},"groups":[[{"kind":"prelude"}],[...]]}
{"kind":"object","sections":[{"slot":"merge","strings":true,"part":1,"data":"61"},{"slot":"merge","strings":true,"data":"00"},{"slot":"must","size":1}]},{"kind":"object","sections":[{"slot":"merge","strings":true,"data":"62"}]} => refused NotTerminated { section: OutputSectionId { number: 0 }, input: 1 }
{"kind":"object","sections":[{"slot":"merge","strings":true,"part":1,"data":"61"},{"slot":"merge","strings":true,"data":"6100"}]} => refused TooLarge { section: OutputSectionId { number: 0 }, bucket: 4, offset: 0, len: 2 }
{"kind":"object","sections":[{"slot":"merge","strings":true,"data":"6100"},{"slot":"merge","strings":true,"data":"61"}]} => refused NotTerminated { section: OutputSectionId { number: 0 }, input: 1 }
{"kind":"object","sections":[{"slot":"merge","strings":true,"data":"00"},{"slot":"merge","strings":true,"part":1,"data":"7100"}]} => refused TooLarge { section: OutputSectionId { number: 1 }, bucket: 4, offset: 0, len: 2 }
{"kind":"object","sections":[{"slot":"merge","part":1,"data":"61"},{"slot":"merge","strings":true,"data":"00"}]},{"kind":"object","sections":[{"slot":"merge","strings":true,"data":"00"},{"slot":"merge","part":1,"data":"61"}]} => section (16, 1, 2, 2, 1) bucket (15, 1) piece [0] section (16, 1, 2, 2, 1) bucket (12, 1) piece [97]
"#;

/// Where the first eight offsets behind the start of each input are, and the last of all: the bucket and the offset there.
const PLACES: &str = r#"
@ {"plan":{"page":16,"sections":[{"attrs":1,"parts":[[1,false]]}],"events":[["sec",0]]},"groups":[[{"kind":"prelude"}],[{"kind":"object","sections":[{"slot":"merge","strings":true,"data":"..."}]}]]}
610062006100 => start 0 4:0 4:1 15:0 15:1 4:0 4:1 - - -
62006100 => start 0 15:0 15:1 4:0 4:1 - - - - -
000000 => start 0 15:0 15:0 15:0 - - - - - -
# Several sections of one output section.
@ {"plan":{"page":16,"sections":[{"attrs":1,"parts":[[1,false]]}],"events":[["sec",0]]},"groups":[[{"kind":"prelude"}],[{"kind":"object","sections":[...]}]]}
{"slot":"merge","strings":true,"data":""},{"slot":"merge","data":""},{"slot":"merge","strings":true,"data":"6100"} => start 0 4:0 4:1 - - - - - - - start 0 4:0 4:1 - - - - - - - start 0 4:0 4:1 - - - - - - -
{"slot":"merge","strings":true,"data":"6100"},{"slot":"merge","strings":true,"data":""} => start 0 4:0 4:1 - - - - - - - start 256 - - - - - - - - -
{"slot":"merge","data":"01020304"},{"slot":"merge","data":"01020304"} => start 0 13:0 13:1 13:2 13:3 - - - - - start 256 13:0 13:1 13:2 13:3 - - - - -
{"slot":"merge","strings":true,"data":"«299 times 61»00"},{"slot":"merge","data":"6162"},{"slot":"merge","strings":true,"data":"616200"} => start 0 14:0 14:1 14:2 14:3 14:4 14:5 14:6 14:7 - start 512 10:0 10:1 - - - - - - - start 768 14:300 14:301 14:302 - - - - - -
"#;

/// Of each output section the distinct pieces, the pieces, the image's bytes and the starts past the twelfth of their blocks of 256; and where
/// some offsets of each input are, up to the twelfth start and behind it, at the ends of blocks and at the end of the data.
const STARTS: &str = r#"
@ {"plan":{"page":16,"sections":[{"attrs":1,"parts":[[1,false]]}],"events":[["sec",0]]},"groups":[[{"kind":"prelude"}],[{"kind":"object","sections":[{"slot":"merge","strings":true,"data":"..."}]}]]}
«12 times 00» => starts (1, 12, 1, 0) at 15:0 15:0 15:0 15:0 15:0 - - - - - - -
«13 times 00» => starts (1, 13, 1, 1) at 15:0 15:0 15:0 15:0 15:0 15:0 - - - - - -
«300 times 00» => starts (1, 300, 1, 276) at 15:0 15:0 15:0 15:0 15:0 15:0 15:0 15:0 15:0 15:0 - -
«254 times 61»000000 => starts (2, 3, 256, 0) at 9:0 9:8 9:9 9:10 9:11 9:12 9:254 15:0 15:0 - - -
«299 times 61»00«13 times 00» => starts (2, 14, 301, 1) at 14:0 14:8 14:9 14:10 14:11 14:12 14:254 14:255 14:256 14:299 15:0 15:0
# A start of the overflow list is the last before a block in which nothing starts.
«13 times 00»«299 times 61»00 => starts (2, 14, 301, 2) at 15:0 15:0 15:0 15:0 15:0 15:0 14:241 14:242 14:243 14:286 14:287 14:299
# The second block has twelve starts, and none of those in the overflow list.
«13 times 00»"},{"slot":"merge","strings":true,"data":"«12 times 00» => starts (1, 25, 1, 1) at 15:0 15:0 15:0 15:0 15:0 15:0 - - - - - - at 15:0 15:0 15:0 15:0 15:0 - - - - - - -
 => starts (0, 0, 0, 0) at - - - - - - - - - - - -
"#;

/// All padded bytes, where each input starts, and the groups.
const GROUPS: &str = r#"
@ {"options":{"merge_group":...},"plan":{"page":16,"sections":[{"attrs":1,"parts":[[1,false]]}],"events":[["sec",0]]},"groups":[[{"kind":"prelude"}],[{"kind":"object","sections":[{"slot":"merge","strings":true,"data":"«9 times 61»00"},{"slot":"merge","strings":true,"data":"«299 times 61»00"}]}]]}
256 => total 768 start 0 start 256 group (0, 256) group (256, 512) group (512, 768)
512 => total 768 start 0 start 256 group (0, 512) group (512, 768)
# Rounded up to a multiple of 256.
1 => total 768 start 0 start 256 group (0, 256) group (256, 512) group (512, 768)
257 => total 768 start 0 start 256 group (0, 512) group (512, 768)
4294967295 => total 768 start 0 start 256 group (0, 768)
4294967296 => total 768 start 0 start 256 group (0, 768)
@ {"options":{"merge_group":...},"plan":{"page":16,"sections":[{"attrs":1,"parts":[[1,false]]}],"events":[["sec",0]]},"groups":[[{"kind":"prelude"}],[{"kind":"object","sections":[{"slot":"merge","strings":true,"data":"«299 times 61»00"},{"slot":"merge","strings":true,"data":"«299 times 61»00"}]}]]}
256 => total 1024 start 0 start 512 group (0, 256) group (256, 512) group (512, 768) group (768, 1024)
@ {"options":{"merge_group":...},"plan":{"page":16,"sections":[{"attrs":1,"parts":[[1,false]]}],"events":[["sec",0]]},"groups":[[{"kind":"prelude"}],[{"kind":"object","sections":[{"slot":"merge","data":"«256 times 61»"},{"slot":"merge","data":"«300 times 61»"},{"slot":"merge","strings":true,"data":"6100"}]}]]}
256 => total 1024 start 0 start 256 start 768 group (0, 256) group (256, 768) group (768, 1024)
512 => total 1024 start 0 start 256 start 768 group (0, 768) group (768, 1024)
@ {"options":{"merge_group":...},"plan":{"page":16,"sections":[{"attrs":1,"parts":[[1,false]]}],"events":[["sec",0]]},"groups":[[{"kind":"prelude"}],[{"kind":"object","sections":[{"slot":"merge","strings":true,"data":"6100"},{"slot":"merge","data":"«600 times 61»"},{"slot":"merge","data":""}]}]]}
256 => total 1024 start 0 start 256 start 1024 group (0, 256) group (256, 1024)
512 => total 1024 start 0 start 256 start 1024 group (0, 1024)
@ {"options":{"merge_group":...},"plan":{"page":16,"sections":[{"attrs":1,"parts":[[1,false]]}],"events":[["sec",0]]},"groups":[[{"kind":"prelude"}],[{"kind":"object","sections":[{"slot":"merge","strings":true,"data":""}]}]]}
256 => total 0 start 0
"#;

/// What a relocation has of its symbol, where the image starts at 4096: as it is, and where unnamed symbols are 0. The symbols
/// stand at the start of the strings, unnamed and named; at their end, unnamed and named; one before the start, wrapping; in
/// another section; and nowhere, defined by the second.
const ADDRESSES: &str = r#"
@ {"plan":{"page":16,"sections":[{"attrs":1,"parts":[[1,false]]}],"events":[["sec",0]]},"groups":[[{"kind":"prelude"}],[{"kind":"object","symbols":[{"at":["sec",0,0]},{"name":"a","at":["sec",0,0]},{"at":["sec",0,6]},{"name":"b","at":["sec",0,6]},{"at":["sec",0,18446744073709551615]},{"at":["sec",1,0]},{"at":["undef"],"def":1}],"sections":[{"slot":"merge","strings":true,"data":"68656c6c6f00"},{"slot":"must","size":1,"relocs":[...]}]}]]}
[0,"Absolute",0,2,false] => address (Ok(Some(4098)), Ok(Some(0)))
[0,"Absolute",0,6,false] | [0,"Absolute",0,-1,false] | [0,"Absolute",2,0,false] | [0,"Absolute",2,-7,false] | [0,"Absolute",4,0,false] => address (Err(OffsetPastEnd), Ok(Some(0)))
[0,"Absolute",1,6,false] => address (Ok(Some(4102)), Ok(Some(4102)))
[0,"Absolute",0,0,false] | [0,"Absolute",4,1,false] => address (Ok(Some(4096)), Ok(Some(0)))
[0,"Absolute",0,5,false] | [0,"Absolute",2,-1,false] => address (Ok(Some(4101)), Ok(Some(0)))
[0,"Absolute",1,-1,false] => address (Ok(Some(4095)), Ok(Some(4095)))
[0,"Absolute",1,-4097,false] => address (Ok(Some(18446744073709551615)), Ok(Some(18446744073709551615)))
[0,"Absolute",3,0,false] | [0,"Absolute",3,-1,false] => address (Err(OffsetPastEnd), Err(OffsetPastEnd))
[0,"Absolute",5,0,false] | [0,"Absolute",6,0,false] => address (Ok(None), Ok(None))
@ {"plan":{"page":16,"sections":[{"attrs":1,"parts":[[1,false]]}],"events":[["sec",0]]},"groups":[[{"kind":"prelude"}],[{"kind":"object","symbols":[{"at":["sec",0,0]},{"name":"a","at":["sec",0,0]},{"at":["sec",0,6]},{"name":"b","at":["sec",0,6]},{"at":["sec",0,18446744073709551615]},{"at":["sec",1,0]},{"at":["undef"],"def":1}],"sections":[{"slot":"merge","strings":true,"data":"610062006100"},{"slot":"must","size":1,"relocs":[...]}]}]]}
[0,"Absolute",0,0,false] | [0,"Absolute",0,4,false] => address (Ok(Some(4096)), Ok(Some(0)))
[0,"Absolute",0,2,false] => address (Ok(Some(4098)), Ok(Some(0)))
[0,"Absolute",0,-1,false] => address (Err(OffsetPastEnd), Ok(Some(0)))
[0,"Absolute",1,2,false] => address (Ok(Some(4098)), Ok(Some(4098)))
"#;

/// What is kept on the caller alone, and where offsets are, or the refusal; whether so many workers tell the same; and the addresses that
/// relocations have of symbols where two merge.
const BY_WORKERS: &str = r#"
@ {"plan":{"page":16,"sections":[{"attrs":1,"parts":[[1,false]]}],"events":[["sec",0]]},"groups":[[{"kind":"prelude"}],[{"kind":"object","sections":[{"slot":"merge","strings":true,"data":"..."}]}]]}
610062006100 => section (16, 2, 3, 6, 4) bucket (4, 2) piece [97, 0] bucket (15, 2) piece [98, 0] start 0 4:0 4:1 15:0 15:1 4:0 4:1 - - - 0 alike 2 alike 8 alike
62006100 => section (16, 2, 2, 4, 4) bucket (4, 2) piece [97, 0] bucket (15, 2) piece [98, 0] start 0 15:0 15:1 4:0 4:1 - - - - - 0 alike 2 alike 8 alike
 => section (16, 0, 0, 0, 0) start 0 - - - - - - - - - 0 alike 2 alike 8 alike
616263 | 610062 => refused NotTerminated { section: OutputSectionId { number: 0 }, input: 0 } 0 alike 2 alike 8 alike
# In groups of 256 bytes: strings longer than a group, constants behind them, one that ends with a group, equal ones in several groups, and inputs without bytes.
@ {"options":{"merge_group":256},"plan":{"page":16,"sections":[{"attrs":1,"parts":[[1,false]]}],"events":[["sec",0]]},"groups":[[{"kind":"prelude"}],[{"kind":"object","sections":[...]}]]}
{"slot":"merge","data":"01020304"},{"slot":"merge","data":"01020304"} => section (16, 1, 2, 8, 4) bucket (13, 4) piece [1, 2, 3, 4] start 0 13:0 13:1 13:2 13:3 - - - - - start 256 13:0 13:1 13:2 13:3 - - - - - 0 alike 2 alike 8 alike
{"slot":"merge","strings":true,"data":"«299 times 61»00"},{"slot":"merge","strings":true,"data":"«299 times 61»00"} => section (16, 1, 2, 600, 300) bucket (14, 300) piece [97, 97, 97, 97, 97, 97, 97, 97, 97, 97, 97, 97, 97, 97, 97, 97, 97, 97, 97, 97, 97, 97, 97, 97, 97, 97, 97, 97, 97, 97, 97, 97, 97, 97, 97, 97, 97, 97, 97, 97, 97, 97, 97, 97, 97, 97, 97, 97, 97, 97, 97, 97, 97, 97, 97, 97, 97, 97, 97, 97, 97, 97, 97, 97, 97, 97, 97, 97, 97, 97, 97, 97, 97, 97, 97, 97, 97, 97, 97, 97, 97, 97, 97, 97, 97, 97, 97, 97, 97, 97, 97, 97, 97, 97, 97, 97, 97, 97, 97, 97, 97, 97, 97, 97, 97, 97, 97, 97, 97, 97, 97, 97, 97, 97, 97, 97, 97, 97, 97, 97, 97, 97, 97, 97, 97, 97, 97, 97, 97, 97, 97, 97, 97, 97, 97, 97, 97, 97, 97, 97, 97, 97, 97, 97, 97, 97, 97, 97, 97, 97, 97, 97, 97, 97, 97, 97, 97, 97, 97, 97, 97, 97, 97, 97, 97, 97, 97, 97, 97, 97, 97, 97, 97, 97, 97, 97, 97, 97, 97, 97, 97, 97, 97, 97, 97, 97, 97, 97, 97, 97, 97, 97, 97, 97, 97, 97, 97, 97, 97, 97, 97, 97, 97, 97, 97, 97, 97, 97, 97, 97, 97, 97, 97, 97, 97, 97, 97, 97, 97, 97, 97, 97, 97, 97, 97, 97, 97, 97, 97, 97, 97, 97, 97, 97, 97, 97, 97, 97, 97, 97, 97, 97, 97, 97, 97, 97, 97, 97, 97, 97, 97, 97, 97, 97, 97, 97, 97, 97, 97, 97, 97, 97, 97, 97, 97, 97, 97, 97, 97, 97, 97, 97, 97, 97, 97, 97, 97, 97, 97, 97, 97, 97, 97, 97, 97, 97, 97, 97, 97, 97, 97, 97, 97, 97, 97, 97, 97, 97, 97, 0] start 0 14:0 14:1 14:2 14:3 14:4 14:5 14:6 14:7 - start 512 14:0 14:1 14:2 14:3 14:4 14:5 14:6 14:7 - 0 alike 2 alike 8 alike
{"slot":"merge","strings":true,"data":"«299 times 61»00"},{"slot":"merge","data":"6162"},{"slot":"merge","strings":true,"data":"616200"} => section (16, 3, 3, 305, 305) bucket (10, 2) piece [97, 98] bucket (14, 303) piece [97, 97, 97, 97, 97, 97, 97, 97, 97, 97, 97, 97, 97, 97, 97, 97, 97, 97, 97, 97, 97, 97, 97, 97, 97, 97, 97, 97, 97, 97, 97, 97, 97, 97, 97, 97, 97, 97, 97, 97, 97, 97, 97, 97, 97, 97, 97, 97, 97, 97, 97, 97, 97, 97, 97, 97, 97, 97, 97, 97, 97, 97, 97, 97, 97, 97, 97, 97, 97, 97, 97, 97, 97, 97, 97, 97, 97, 97, 97, 97, 97, 97, 97, 97, 97, 97, 97, 97, 97, 97, 97, 97, 97, 97, 97, 97, 97, 97, 97, 97, 97, 97, 97, 97, 97, 97, 97, 97, 97, 97, 97, 97, 97, 97, 97, 97, 97, 97, 97, 97, 97, 97, 97, 97, 97, 97, 97, 97, 97, 97, 97, 97, 97, 97, 97, 97, 97, 97, 97, 97, 97, 97, 97, 97, 97, 97, 97, 97, 97, 97, 97, 97, 97, 97, 97, 97, 97, 97, 97, 97, 97, 97, 97, 97, 97, 97, 97, 97, 97, 97, 97, 97, 97, 97, 97, 97, 97, 97, 97, 97, 97, 97, 97, 97, 97, 97, 97, 97, 97, 97, 97, 97, 97, 97, 97, 97, 97, 97, 97, 97, 97, 97, 97, 97, 97, 97, 97, 97, 97, 97, 97, 97, 97, 97, 97, 97, 97, 97, 97, 97, 97, 97, 97, 97, 97, 97, 97, 97, 97, 97, 97, 97, 97, 97, 97, 97, 97, 97, 97, 97, 97, 97, 97, 97, 97, 97, 97, 97, 97, 97, 97, 97, 97, 97, 97, 97, 97, 97, 97, 97, 97, 97, 97, 97, 97, 97, 97, 97, 97, 97, 97, 97, 97, 97, 97, 97, 97, 97, 97, 97, 97, 97, 97, 97, 97, 97, 97, 97, 97, 97, 97, 97, 97, 97, 97, 97, 97, 97, 97, 0] piece [97, 98, 0] start 0 14:0 14:1 14:2 14:3 14:4 14:5 14:6 14:7 - start 512 10:0 10:1 - - - - - - - start 768 14:300 14:301 14:302 - - - - - - 0 alike 2 alike 8 alike
{"slot":"merge","strings":true,"data":"«128 times 6100»6200"},{"slot":"merge","data":""},{"slot":"merge","strings":true,"data":""},{"slot":"merge","strings":true,"data":"62006100"} => section (16, 2, 131, 262, 4) bucket (4, 2) piece [97, 0] bucket (15, 2) piece [98, 0] start 0 4:0 4:1 4:0 4:1 4:0 4:1 4:0 4:1 - start 512 15:0 15:1 4:0 4:1 - - - - - start 512 15:0 15:1 4:0 4:1 - - - - - start 512 15:0 15:1 4:0 4:1 - - - - - 0 alike 2 alike 8 alike
{"slot":"merge","strings":true,"data":"«255 times 61»006200"},{"slot":"merge","strings":true,"data":"6200"} => section (16, 2, 3, 260, 258) bucket (2, 256) piece [97, 97, 97, 97, 97, 97, 97, 97, 97, 97, 97, 97, 97, 97, 97, 97, 97, 97, 97, 97, 97, 97, 97, 97, 97, 97, 97, 97, 97, 97, 97, 97, 97, 97, 97, 97, 97, 97, 97, 97, 97, 97, 97, 97, 97, 97, 97, 97, 97, 97, 97, 97, 97, 97, 97, 97, 97, 97, 97, 97, 97, 97, 97, 97, 97, 97, 97, 97, 97, 97, 97, 97, 97, 97, 97, 97, 97, 97, 97, 97, 97, 97, 97, 97, 97, 97, 97, 97, 97, 97, 97, 97, 97, 97, 97, 97, 97, 97, 97, 97, 97, 97, 97, 97, 97, 97, 97, 97, 97, 97, 97, 97, 97, 97, 97, 97, 97, 97, 97, 97, 97, 97, 97, 97, 97, 97, 97, 97, 97, 97, 97, 97, 97, 97, 97, 97, 97, 97, 97, 97, 97, 97, 97, 97, 97, 97, 97, 97, 97, 97, 97, 97, 97, 97, 97, 97, 97, 97, 97, 97, 97, 97, 97, 97, 97, 97, 97, 97, 97, 97, 97, 97, 97, 97, 97, 97, 97, 97, 97, 97, 97, 97, 97, 97, 97, 97, 97, 97, 97, 97, 97, 97, 97, 97, 97, 97, 97, 97, 97, 97, 97, 97, 97, 97, 97, 97, 97, 97, 97, 97, 97, 97, 97, 97, 97, 97, 97, 97, 97, 97, 97, 97, 97, 97, 97, 97, 97, 97, 97, 97, 97, 97, 97, 97, 97, 97, 97, 97, 97, 97, 97, 97, 97, 97, 97, 97, 97, 97, 97, 97, 97, 97, 97, 97, 97, 0] bucket (15, 2) piece [98, 0] start 0 2:0 2:1 2:2 2:3 2:4 2:5 2:6 2:7 - start 512 15:0 15:1 - - - - - - - 0 alike 2 alike 8 alike
# One string, whose last byte isn't zero behind one that is, and of two that of the second.
{"slot":"merge","data":"6162"},{"slot":"merge","strings":true,"data":"6100"},{"slot":"merge","strings":true,"data":"6162"} => refused NotTerminated { section: OutputSectionId { number: 0 }, input: 2 } 0 alike 2 alike 8 alike
# How long buckets may be: of two strings in one bucket, in groups of their own.
@ {"options":{"merge_group":256,"bucket_limit":...},"plan":{"page":16,"sections":[{"attrs":1,"parts":[[1,false]]}],"events":[["sec",0]]},"groups":[[{"kind":"prelude"}],[{"kind":"object","sections":[{"slot":"merge","strings":true,"data":"6100"},{"slot":"merge","strings":true,"data":"7100"}]}]]}
4 => section (16, 2, 2, 4, 4) bucket (4, 4) piece [97, 0] piece [113, 0] start 0 4:0 4:1 - - - - - - - start 256 4:2 4:3 - - - - - - - 0 alike 2 alike 8 alike
3 => refused TooLarge { section: OutputSectionId { number: 0 }, bucket: 4, offset: 2, len: 2 } 0 alike 2 alike 8 alike
1 => refused TooLarge { section: OutputSectionId { number: 0 }, bucket: 4, offset: 0, len: 2 } 0 alike 2 alike 8 alike
# Two output sections: the first refusal is told, be it of the second input of the first section.
@ {"options":{"merge_group":256},"plan":{"page":16,"sections":[{"attrs":1,"parts":[[1,false]]},{"attrs":1,"parts":[[1,false]]}],"events":[["sec",0],["sec",1]]},"groups":[[{"kind":"prelude"}],[{"kind":"object","sections":[...]}]]}
{"slot":"merge","part":1,"strings":true,"data":"61"},{"slot":"merge","strings":true,"data":"6100"},{"slot":"merge","strings":true,"data":"61"} => refused NotTerminated { section: OutputSectionId { number: 0 }, input: 1 } 0 alike 2 alike 8 alike
{"slot":"merge","part":1,"strings":true,"data":"61"},{"slot":"merge","strings":true,"data":"6100"} => refused NotTerminated { section: OutputSectionId { number: 1 }, input: 0 } 0 alike 2 alike 8 alike
@ {"options":{"merge_group":256,"bucket_limit":3},"plan":{"page":16,"sections":[{"attrs":1,"parts":[[1,false]]},{"attrs":1,"parts":[[1,false]]}],"events":[["sec",0],["sec",1]]},"groups":[[{"kind":"prelude"}],[{"kind":"object","sections":[...]}]]}
{"slot":"merge","part":1,"strings":true,"data":"61"},{"slot":"merge","strings":true,"data":"6100"},{"slot":"merge","strings":true,"data":"7100"} => refused TooLarge { section: OutputSectionId { number: 0 }, bucket: 4, offset: 2, len: 2 } 0 alike 2 alike 8 alike
{"slot":"merge","strings":true,"data":"61"},{"slot":"merge","part":1,"strings":true,"data":"6100"},{"slot":"merge","part":1,"strings":true,"data":"7100"} => refused NotTerminated { section: OutputSectionId { number: 0 }, input: 0 } 0 alike 2 alike 8 alike
# More than twelve starts in a block.
@ {"options":{"merge_group":256},"plan":{"page":16,"sections":[{"attrs":1,"parts":[[1,false]]}],"events":[["sec",0]]},"groups":[[{"kind":"prelude"}],[{"kind":"object","sections":[{"slot":"merge","strings":true,"data":"..."}]}]]}
«13 times 00» => section (16, 1, 13, 13, 1) bucket (15, 1) piece [0] start 0 15:0 15:0 15:0 15:0 15:0 15:0 15:0 15:0 - 0 alike 2 alike 8 alike
«300 times 00» => section (16, 1, 300, 300, 1) bucket (15, 1) piece [0] start 0 15:0 15:0 15:0 15:0 15:0 15:0 15:0 15:0 - 0 alike 2 alike 8 alike
# Groups of all sizes, the greatest too.
@ {"options":{"merge_group":...},"plan":{"page":16,"sections":[{"attrs":1,"parts":[[1,false]]}],"events":[["sec",0]]},"groups":[[{"kind":"prelude"}],[{"kind":"object","sections":[{"slot":"merge","strings":true,"data":"«9 times 61»00"},{"slot":"merge","strings":true,"data":"«299 times 61»00"}]}]]}
256 | 512 | 4294967296 => section (16, 2, 2, 310, 310) bucket (12, 10) piece [97, 97, 97, 97, 97, 97, 97, 97, 97, 0] bucket (14, 300) piece [97, 97, 97, 97, 97, 97, 97, 97, 97, 97, 97, 97, 97, 97, 97, 97, 97, 97, 97, 97, 97, 97, 97, 97, 97, 97, 97, 97, 97, 97, 97, 97, 97, 97, 97, 97, 97, 97, 97, 97, 97, 97, 97, 97, 97, 97, 97, 97, 97, 97, 97, 97, 97, 97, 97, 97, 97, 97, 97, 97, 97, 97, 97, 97, 97, 97, 97, 97, 97, 97, 97, 97, 97, 97, 97, 97, 97, 97, 97, 97, 97, 97, 97, 97, 97, 97, 97, 97, 97, 97, 97, 97, 97, 97, 97, 97, 97, 97, 97, 97, 97, 97, 97, 97, 97, 97, 97, 97, 97, 97, 97, 97, 97, 97, 97, 97, 97, 97, 97, 97, 97, 97, 97, 97, 97, 97, 97, 97, 97, 97, 97, 97, 97, 97, 97, 97, 97, 97, 97, 97, 97, 97, 97, 97, 97, 97, 97, 97, 97, 97, 97, 97, 97, 97, 97, 97, 97, 97, 97, 97, 97, 97, 97, 97, 97, 97, 97, 97, 97, 97, 97, 97, 97, 97, 97, 97, 97, 97, 97, 97, 97, 97, 97, 97, 97, 97, 97, 97, 97, 97, 97, 97, 97, 97, 97, 97, 97, 97, 97, 97, 97, 97, 97, 97, 97, 97, 97, 97, 97, 97, 97, 97, 97, 97, 97, 97, 97, 97, 97, 97, 97, 97, 97, 97, 97, 97, 97, 97, 97, 97, 97, 97, 97, 97, 97, 97, 97, 97, 97, 97, 97, 97, 97, 97, 97, 97, 97, 97, 97, 97, 97, 97, 97, 97, 97, 97, 97, 97, 97, 97, 97, 97, 97, 97, 97, 97, 97, 97, 97, 97, 97, 97, 97, 97, 97, 97, 97, 97, 97, 97, 97, 97, 97, 97, 97, 97, 97, 97, 97, 97, 97, 97, 97, 97, 97, 97, 97, 97, 97, 0] start 0 12:0 12:1 12:2 12:3 12:4 12:5 12:6 12:7 - start 256 14:0 14:1 14:2 14:3 14:4 14:5 14:6 14:7 - 0 alike 2 alike 8 alike
# The addresses that symbols have, where two workers merge.
@ {"plan":{"page":16,"sections":[{"attrs":1,"parts":[[1,false]]}],"events":[["sec",0]]},"groups":[[{"kind":"prelude"}],[{"kind":"object","symbols":[{"at":["sec",0,0]},{"name":"a","at":["sec",0,0]}],"sections":[{"slot":"merge","strings":true,"data":"68656c6c6f00"},{"slot":"must","size":1,"relocs":[...]}]}]]}
[0,"Absolute",0,2,false] => section (16, 1, 1, 6, 6) bucket (1, 6) piece [104, 101, 108, 108, 111, 0] start 0 1:0 1:1 1:2 1:3 1:4 1:5 - - - 0 alike 2 alike 8 alike address (Ok(Some(4098)), Ok(Some(0)))
[0,"Absolute",0,6,false] => section (16, 1, 1, 6, 6) bucket (1, 6) piece [104, 101, 108, 108, 111, 0] start 0 1:0 1:1 1:2 1:3 1:4 1:5 - - - 0 alike 2 alike 8 alike address (Err(OffsetPastEnd), Ok(Some(0)))
[0,"Absolute",1,6,false] => section (16, 1, 1, 6, 6) bucket (1, 6) piece [104, 101, 108, 108, 111, 0] start 0 1:0 1:1 1:2 1:3 1:4 1:5 - - - 0 alike 2 alike 8 alike address (Ok(Some(4102)), Ok(Some(4102)))
"#;

/// What is kept of a section with the bytes that are told second, whose size is what is told first.
const SIZED_KEPT: &str = "
# Longer, shorter, and none.
9 6100 => section (16, 1, 1, 2, 2) bucket (4, 2) piece [97, 0]
1 6100 => section (16, 1, 1, 2, 2) bucket (4, 2) piece [97, 0]
0 610062006100 => section (16, 2, 3, 6, 4) bucket (4, 2) piece [97, 0] bucket (15, 2) piece [98, 0]
9 - => section (16, 0, 0, 0, 0)
9 61 => refused NotTerminated { section: OutputSectionId { number: 0 }, input: 0 }
";

/// The addresses of a named symbol at 1 and of one at 2 in such a section, where the image starts at 4096.
const SIZED_ADDRESSES: &str = "
9 6100 => address (Ok(Some(4097)), Ok(Some(4097))) address (Err(OffsetPastEnd), Err(OffsetPastEnd))
1 6100 => address (Ok(Some(4097)), Ok(Some(4097))) address (Err(OffsetPastEnd), Err(OffsetPastEnd))
0 610062006100 => address (Ok(Some(4097)), Ok(Some(4097))) address (Ok(Some(4098)), Ok(Some(4098)))
9 - => address (Err(OffsetPastEnd), Err(OffsetPastEnd)) address (Err(OffsetPastEnd), Err(OffsetPastEnd))
";

/// Adds a bucket that holds something: its number, its length and its pieces.
fn add_bucket(
    line: &mut String,
    number: usize,
    bucket: &MergeStringsSectionBucket<'_>,
) -> Result<(), AllocError> {
    if bucket.len() == 0 {
        return Ok(());
    }
    add(line, "bucket", &(number, bucket.len()))?;
    for piece in bucket.strings() {
        add(line, "piece", &piece.as_bytes())?;
    }
    Ok(())
}

/// Adds what an output section keeps.
fn add_kept(line: &mut String, section: &MergedStringsSection<'_>) -> Result<(), AllocError> {
    let (kept, len) = (section.string_count(), section.len());
    let (count, size) = (
        section.input_string_count(),
        section.input_string_byte_size(),
    );
    let buckets = section.buckets();
    add(line, "section", &(buckets.len(), kept, count, size, len))?;
    for (number, bucket) in buckets.iter().enumerate() {
        add_bucket(line, number, bucket)?;
    }
    Ok(())
}

/// Adds a place: the bucket and the offset there, or a dash.
fn add_place(line: &mut String, place: Option<BucketOffset>) -> Result<(), AllocError> {
    match place {
        Some(place) => write!(line, " {}:{}", place.bucket(), place.offset_in_bucket()),
        None => line.push_str(" -"),
    }
}

/// Adds where the first eight offsets behind a start are, and the last of all.
fn add_offsets(
    line: &mut String,
    section: &MergedStringsSection<'_>,
    start: LinearInputOffset,
) -> Result<(), AllocError> {
    add(line, "start", &start.as_u64())?;
    for offset in [0, 1, 2, 3, 4, 5, 6, 7, u64::MAX] {
        add_place(line, find_string(section, start, offset))?;
    }
    Ok(())
}

/// Adds where offsets of each input are.
fn add_places(
    line: &mut String,
    inputs: &StringMergeInputSections<'_>,
    section: &MergedStringsSection<'_>,
) -> Result<(), AllocError> {
    for input in inputs.as_slice() {
        add_offsets(line, section, input.start_input_offset)?;
    }
    Ok(())
}

/// Adds how many starts stand past the twelfth of their blocks, and where offsets of each input are.
fn add_blocks(
    line: &mut String,
    inputs: &StringMergeInputSections<'_>,
    section: &MergedStringsSection<'_>,
) -> Result<(), AllocError> {
    let (kept, count) = (section.string_count(), section.input_string_count());
    let past = section.string_offsets().overflow_len();
    add(line, "starts", &(kept, count, section.len(), past))?;
    for input in inputs.as_slice() {
        line.push_str(" at")?;
        for offset in [0, 8, 9, 10, 11, 12, 254, 255, 256, 299, 300, 312] {
            add_place(line, find_string(section, input.start_input_offset, offset))?;
        }
    }
    Ok(())
}

/// Adds where each input of an output section starts.
fn add_starts(line: &mut String, inputs: &StringMergeInputSections<'_>) -> Result<(), AllocError> {
    for input in inputs.as_slice() {
        add(line, "start", &input.start_input_offset.as_u64())?;
    }
    Ok(())
}

/// Adds the bytes of all inputs of an output section, their starts, and the groups of about so many into which they are cut.
fn add_groups(
    alloc: Global,
    line: &mut String,
    inputs: &StringMergeInputSections<'_>,
    size: u64,
) -> Result<(), AllocError>
    requires positive { 0 < size }
    requires blocks { size % 256 ≡ 0 }
{
    add(line, "total", &total_input_size(inputs))?;
    add_starts(line, inputs)?;
    for group in split_sections(alloc, inputs, size)? {
        add(line, "group", &(group.start.as_u64(), group.end.as_u64()))?;
    }
    Ok(())
}

/// Adds what is told of an output section by itself.
fn add_output(
    alloc: Global,
    line: &mut String,
    told: Merging,
    inputs: &StringMergeInputSections<'_>,
    size: u64,
    section: &MergedStringsSection<'_>,
) -> Result<(), AllocError>
    requires positive { 0 < size }
    requires blocks { size % 256 ≡ 0 }
{
    match told {
        Merging::Places => add_places(line, inputs, section),
        Merging::Starts => add_blocks(line, inputs, section),
        Merging::Groups => add_groups(alloc, line, inputs, size),
        _ => add_kept(line, section),
    }
}

/// Adds what is told of each output section by itself.
fn add_outputs(
    alloc: Global,
    line: &mut String,
    told: Merging,
    inputs: &StringMergeInputs<'_>,
    merged: &[MergedStringsSection<'_>],
) -> Result<(), AllocError> {
    let size = inputs.group_size();
    for (number, section) in merged.iter().enumerate() {
        if let Some(output) = inputs.outputs().get(number) {
            add_output(alloc, line, told, output, size, section)?;
        }
    }
    Ok(())
}

/// Adds the address that a relocation has of its symbol, as it is, and where unnamed symbols are 0.
fn add_address(
    line: &mut String,
    link: &LinkInput,
    relocation: &Relocation,
    merged: &[MergedStringsSection<'_>],
    starts: &MergedStringStartAddresses,
) -> Result<(), AllocError>
    requires good { IsWellFormed link.now }
    requires merged { merged.now ≡ (link_inputs link.now).outputs }
    requires starts { AreStartsOf merged.now starts.now }
{
    let symbol = SymbolId::from_u32(relocation.symbol);
    let addend = relocation.addend;
    let own = get_merged_string_output_address(link, symbol, addend, merged, starts, false);
    let zero = get_merged_string_output_address(link, symbol, addend, merged, starts, true);
    add(line, "address", &(own, zero))
}

/// Adds the addresses that relocations have of the symbols of an only object.
fn add_addresses(
    line: &mut String,
    link: &LinkInput,
    merged: &[MergedStringsSection<'_>],
    starts: &MergedStringStartAddresses,
) -> Result<(), AllocError>
    requires good { IsWellFormed link.now }
    requires merged { merged.now ≡ (link_inputs link.now).outputs }
    requires starts { AreStartsOf merged.now starts.now }
{
    let Some(file) = link.groups.file(FileId { group: 1, file: 0 }) else {
        return Ok(());
    };
    for section in file.sections.as_slice() {
        for relocation in section.relocs.as_slice() {
            add_address(line, link, relocation, merged, starts)?;
        }
    }
    Ok(())
}

/// Adds the addresses that relocations have of symbols, where the only output section's image starts at 4096.
fn add_started(
    alloc: Global,
    line: &mut String,
    link: &LinkInput,
    merged: &[MergedStringsSection<'_>],
) -> Result<(), AllocError>
    requires good { IsWellFormed link.now }
    requires merged { merged.now ≡ (link_inputs link.now).outputs }
{
    let [section] = merged else {
        return Ok(());
    };
    let start = (u64::MAX - section.len()).min(4096);
    let starts = MergedStringStartAddresses::compute(alloc, merged, &[start])?;
    add_addresses(line, link, merged, &starts)
}

/// What a row shows of what is merged: what is kept, and where offsets are.
const SHOWN: [Merging; 2] = [Merging::Kept, Merging::Places];

/// What workers have to tell alike: the same, and how many starts stand past the twelfth of their blocks.
const ALIKE: [Merging; 3] = [Merging::Kept, Merging::Places, Merging::Starts];

/// What is told of what is merged; or why nothing is.
fn told_merged(
    alloc: Global,
    inputs: &StringMergeInputs<'_>,
    merged: &Result<List<MergedStringsSection<'_>>, MergeError>,
    asked: &[Merging],
) -> Result<String, AllocError> {
    let mut text = String::new(alloc);
    match merged {
        Ok(merged) => {
            for told in asked {
                add_outputs(alloc, &mut text, *told, inputs, merged.as_slice())?;
            }
        }
        Err(MergeError::NoMemory) => return Err(AllocError),
        Err(error) => add(&mut text, "refused", error)?,
    }
    Ok(text)
}

/// Adds whether so many workers tell the same, or what they tell.
fn add_by(
    rt: &(impl Threads + Wait + Sync),
    alloc: Global,
    line: &mut String,
    inputs: &StringMergeInputs<'_>,
    workers: u32,
    alone: &str,
) -> Result<(), AllocError> {
    let merged = merge_strings(rt, alloc, inputs, workers, &NoGate);
    let text = told_merged(alloc, inputs, &merged, &ALIKE)?;
    if text.as_str() == alone {
        write!(line, " {workers} alike")
    } else {
        write!(line, " {workers} tell {text}")
    }
}

/// How often groups look for each other at most, in all.
const LOOKS: u64 = 30_000_000;

/// A gate at which two groups go in step: each stays there until the other has come as often, for a while.
#[derive(Drop)]
struct InStep {
    first: AtomicU64,
    second: AtomicU64,
    met: AtomicU64,
    looks: AtomicU64,
}

impl InStep {
    /// No group has come.
    fn new() -> InStep {
        InStep {
            first: AtomicU64::new(0),
            second: AtomicU64::new(0),
            met: AtomicU64::new(0),
            looks: AtomicU64::new(0),
        }
    }

    /// Whether groups have looked for each other as often as they may.
    fn have_looked_enough(&self) -> bool {
        self.looks.load(Ordering::SeqCst) >= LOOKS
    }
}

impl Gate for InStep {
    fn enter(&self, group: u32) {
        let (own, other) = if group == 0 {
            (&self.first, &self.second)
        } else {
            (&self.second, &self.first)
        };
        let before = own.fetch_add(1, Ordering::SeqCst);
        for _ in 0..LOOKS {
            if other.load(Ordering::SeqCst) > before {
                self.met.fetch_add(1, Ordering::SeqCst);
                return;
            }
            if self.have_looked_enough() {
                return;
            }
            self.looks.fetch_add(1, Ordering::SeqCst);
            yield_now();
        }
    }
}

/// How often each of two groups comes to the gate, and how often they meet there, and what two workers keep.
fn told_in_step(
    rt: &(impl Threads + Wait + Sync),
    alloc: Global,
    link: &LinkInput,
) -> Result<String, AllocError> {
    if check_link(link).is_err() {
        return Ok(String::new(alloc));
    }
    let inputs = StringMergeInputs::new(alloc, link)?;
    let gate = InStep::new();
    let merged = merge_strings(rt, alloc, &inputs, 2, &gate);
    let mut text = told_merged(alloc, &inputs, &merged, &SHOWN)?;
    for count in [&gate.first, &gate.second, &gate.met] {
        add(&mut text, "came", &count.load(Ordering::SeqCst))?;
    }
    Ok(text)
}

/// Adds what is kept on the caller alone, and what workers tell.
fn add_by_all(
    rt: &(impl Threads + Wait + Sync),
    alloc: Global,
    line: &mut String,
    inputs: &StringMergeInputs<'_>,
) -> Result<(), AllocError> {
    let merged = merge_strings_alone(alloc, inputs);
    line.push_str(told_merged(alloc, inputs, &merged, &SHOWN)?.as_str())?;
    let alone = told_merged(alloc, inputs, &merged, &ALIKE)?;
    for workers in [0, 2, 8] {
        add_by(rt, alloc, line, inputs, workers, alone.as_str())?;
    }
    Ok(())
}

/// Adds what workers keep of a link that is well formed, what is kept on the caller alone, and the addresses of symbols where two workers merge.
pub fn add_merged_by_workers(
    rt: &(impl Threads + Wait + Sync),
    alloc: Global,
    line: &mut String,
    link: &LinkInput,
) -> Result<(), AllocError> {
    if check_link(link).is_err() {
        return Ok(());
    }
    let inputs = StringMergeInputs::new(alloc, link)?;
    add_by_all(rt, alloc, line, &inputs)?;
    match merge_strings(rt, alloc, &inputs, 2, &NoGate) {
        Ok(merged) => add_started(alloc, line, link, merged.as_slice()),
        Err(_) => Ok(()),
    }
}

/// Adds what is told of merging, of a link that is well formed; or why it isn't merged.
pub fn add_merging(
    alloc: Global,
    line: &mut String,
    told: Merging,
    link: &LinkInput,
) -> Result<(), AllocError> {
    if check_link(link).is_err() {
        return Ok(());
    }
    let inputs = StringMergeInputs::new(alloc, link)?;
    match (merge_strings_alone(alloc, &inputs), told) {
        (Ok(merged), Merging::Addresses) => add_started(alloc, line, link, merged.as_slice()),
        (Ok(merged), _) => add_outputs(alloc, line, told, &inputs, merged.as_slice()),
        (Err(MergeError::NoMemory), _) => Err(AllocError),
        (Err(error), _) => add(line, "refused", &error),
    }
}

#[test]
fn merged_sections_hold_distinct_pieces(rt: HostRuntime) -> Result<(), Fail> {
    expect_rows(&rt, rt.alloc(), Asked::Of(Merging::Kept), KEPT)
}

#[test]
fn every_number_of_workers_merges(rt: HostRuntime) -> Result<(), Fail> {
    expect_rows(&rt, rt.alloc(), Asked::ByWorkers, BY_WORKERS)
}

/// Two constants, each in a group of its own.
const TWO_GROUPS: &str =
    r#"{"options":{"merge_group":1},"plan":{"page":16,"sections":[{"attrs":1,"parts":[[1,false]]}],"events":[["sec",0]]},"groups":[[{"kind":"prelude"}],[{"kind":"object","sections":[{"slot":"merge","data":"01020304"},{"slot":"merge","data":"6162"}]}]]}"#;

#[test]
fn two_workers_fill_groups_in_step(rt: HostRuntime) -> Result<(), Fail> {
    let alloc = rt.alloc();
    let text = match read_link(alloc, TWO_GROUPS.as_bytes()) {
        Ok(link) => told_in_step(&rt, alloc, &link)?,
        Err(error) => format!(in alloc; "no link: {error}")?,
    };
    let want =
        "section (16, 2, 2, 6, 6) bucket (10, 2) piece [97, 98] bucket (13, 4) piece [1, 2, 3, 4] start 0 13:0 13:1 13:2 13:3 - - - - - start 256 10:0 10:1 - - - - - - - came 16 came 16 came 32";
    expect_text(&rt, text.as_str(), want);
    Ok(())
}

#[test]
fn merging_goes_by_data(rt: HostRuntime) -> Result<(), Fail> {
    expect_rows(&rt, rt.alloc(), Asked::OfSized(Merging::Kept), SIZED_KEPT)
}

#[test]
fn addresses_go_by_data(rt: HostRuntime) -> Result<(), Fail> {
    expect_rows(
        &rt,
        rt.alloc(),
        Asked::OfSized(Merging::Addresses),
        SIZED_ADDRESSES,
    )
}

#[test]
fn offsets_are_found_in_buckets(rt: HostRuntime) -> Result<(), Fail> {
    expect_rows(&rt, rt.alloc(), Asked::Of(Merging::Places), PLACES)
}

#[test]
fn blocks_keep_twelve_starts(rt: HostRuntime) -> Result<(), Fail> {
    expect_rows(&rt, rt.alloc(), Asked::Of(Merging::Starts), STARTS)
}

#[test]
fn inputs_are_cut_into_groups(rt: HostRuntime) -> Result<(), Fail> {
    expect_rows(&rt, rt.alloc(), Asked::Of(Merging::Groups), GROUPS)
}

#[test]
fn symbols_of_merged_sections_have_addresses(rt: HostRuntime) -> Result<(), Fail> {
    expect_rows(&rt, rt.alloc(), Asked::Of(Merging::Addresses), ADDRESSES)
}

/// Adds what a bucket answers to a piece with bytes, and its length then.
fn add_added<'data>(
    line: &mut String,
    bucket: &mut MergeStringsSectionBucket<'data>,
    piece: &'data [u8],
) -> Result<(), AllocError> {
    if piece.is_empty() {
        return Ok(());
    }
    let mut source = piece;
    let answer = bucket.add_string(MergeString::take_hashed(&mut source));
    add(line, "added", &(answer, bucket.len()))
}

/// Adds what a bucket of a limit answers to two strings, and to the first once more.
fn add_limited(alloc: Global, line: &mut String, limit: u64) -> Result<(), AllocError>
    requires { limit ≤ 2 ^ 28 }
{
    let section = OutputSectionId::from_u32(7);
    let mut bucket = MergeStringsSectionBucket::new(alloc, section, 4, limit);
    for piece in [b"a\0", b"q\0", b"a\0"] {
        add_added(line, &mut bucket, piece)?;
    }
    Ok(())
}

/// Adds what numbers make of a bucket and an offset there, and sums and differences of input offsets.
fn add_made(line: &mut String) -> Result<(), AllocError> {
    add(line, "place", &BucketOffset::new(5, 3))?;
    add(line, "place", &BucketOffset::new(268435455, 15))?;
    add(
        line,
        "place",
        &(BucketOffset::new(268435456, 0), BucketOffset::default()),
    )?;
    let start = LinearInputOffset::from_u64(256);
    add(
        line,
        "offset",
        &(start + 44, start + 44 - start, LinearInputOffset::default()),
    )
}

/// Adds the string that is taken from some data, if there is one, and what is left.
fn add_taken(line: &mut String, data: &[u8]) -> Result<(), AllocError> {
    let mut source = data;
    let taken = MergeString::take_string_hashed(&mut source);
    add(
        line,
        "taken",
        &(taken.map(|string| string.as_bytes()), source),
    )
}

/// Adds some bytes as the piece that they are shows them.
fn add_text(line: &mut String, data: &[u8]) -> Result<(), AllocError> {
    let mut source = data;
    let piece = MergeString::take_hashed(&mut source);
    write!(line, " text {piece}")
}

#[test]
fn buckets_pieces_and_offsets_are_made(rt: HostRuntime) -> Result<(), Fail> {
    let mut line = String::new(rt.alloc());
    add_limited(rt.alloc(), &mut line, 4)?;
    add_limited(rt.alloc(), &mut line, 3)?;
    add_made(&mut line)?;
    expect_text(
        &rt,
        line.as_str(),
        "added (Ok(BucketOffset { number: 1073741824 }), 2) added (Ok(BucketOffset { number: 1073741826 }), 4) added (Ok(BucketOffset { number: 1073741824 }), 4) \
        added (Ok(BucketOffset { number: 1073741824 }), 2) added (Err(TooLarge { section: OutputSectionId { number: 7 }, bucket: 4, offset: 2, len: 2 }), 2) added (Ok(BucketOffset { number: 1073741824 }), 2) \
        place Some(BucketOffset { number: 805306373 }) place Some(BucketOffset { number: 4294967295 }) place (None, BucketOffset { number: 0 }) \
        offset (LinearInputOffset { number: 300 }, 44, LinearInputOffset { number: 0 })",
    );
    Ok(())
}

/// One U+FFFD stands for each longest part of a character that isn't whole, as in the Unicode Standard.
#[test]
fn strings_are_taken_and_shown(rt: HostRuntime) -> Result<(), Fail> {
    let mut line = String::new(rt.alloc());
    for data in [b"ab\0c".as_slice(), b"c", b"", b"\0\0"] {
        add_taken(&mut line, data)?;
    }
    for data in [
        b"a\0".as_slice(),
        b"a\xf0\x9f\x92b\xff\xed\xa0\x80\xc3",
        b"\xe2\x82\xac\xe2\x82\0",
    ] {
        add_text(&mut line, data)?;
    }
    expect_text(
        &rt,
        line.as_str(),
        "taken (Some([97, 98, 0]), [99]) taken (None, [99]) taken (None, []) taken (Some([0]), [0]) \
        text a\0 text a\u{FFFD}b\u{FFFD}\u{FFFD}\u{FFFD}\u{FFFD}\u{FFFD} text \u{20AC}\u{FFFD}\0",
    );
    Ok(())
}
