//! The check: descriptions with one thing broken, lists that are too long, and links that no description gives.

use crate::rows::{Asked, expect_answer, expect_rows};
use crate::shown::Shown;
use lk_check::{check_link, check_link_by_groups};
use lk_input::{InputError, read_link};
use lk_link::{
    Emit, LinkFault, LinkInput, List, OrderEvent, OutputSectionId, PlanPart, PlanSection,
    PlanSections, Text,
};
use lk_test_rows::{Row, groups_of, rows_of, with_groups};
use std::alloc::{AllocError, Global};
use std::test::Fail;
use std::thread::Threads;

/// Adds what the check answers, as the refusal's text tells it.
pub fn add_check(line: &mut String, link: &LinkInput) -> Result<(), AllocError> {
    add_outcome(line, &check_link(link))
}

/// Adds what a check answered.
fn add_outcome(line: &mut String, outcome: &Result<(), LinkFault>) -> Result<(), AllocError> {
    match outcome {
        Ok(()) => line.push_str("well formed"),
        Err(fault) => write!(line, "{fault}"),
    }
}

/// Descriptions, rule by rule.
const RULES: &str = r#"
# Options, of a link with two symbols and one output section.
@ {"options":{...},"plan":{"page":4096,"sections":[{"parts":[[1,false]]}],"events":[["sec",0]]},"groups":[[{"kind":"prelude"}],[{"kind":"object","symbols":[{"at":["undef"]}]}],[{"kind":"object","symbols":[{"at":["undef"]}]}]]}
 => well formed
"branch_range":0,"bucket_limit":0,"merge_group":1 => well formed
"branch_range":2097153,"bucket_limit":268435456,"merge_group":4294967296 => well formed
"branch_range":18446744073709551615 => well formed
"branch_range":1 => bad link: rule 1, options
"branch_range":2097152 => bad link: rule 1, options
"bucket_limit":268435457 => bad link: rule 1, options
"merge_group":0 => bad link: rule 1, options
"merge_group":4294967297 => bad link: rule 1, options
"entry":0 => well formed
"entry":1 => well formed
"entry":2 => bad link: rule 1, options
"entry":4294967295 => bad link: rule 1, options
# The page and the output sections.
@ {"plan":{...},"groups":[[{"kind":"prelude"}]]}
"page":1 => well formed
"page":65536 => well formed
"page":0 => bad link: rule 2, plan
"page":3 => bad link: rule 2, plan
"page":131072 => bad link: rule 2, plan
"page":1,"sections":[{"attrs":31,"align":65536,"parts":[[65536,false],[8,false],[1,false]]}],"events":[["sec",0]] => well formed
"page":1,"sections":[{"parts":[[1,false]]},{"attrs":32,"parts":[[1,false]]}],"events":[["sec",0],["sec",1]] => bad link: rule 3, section 1
"page":1,"sections":[{"align":0,"parts":[[1,false]]}] => bad link: rule 3, section 0
"page":1,"sections":[{"align":3,"parts":[[1,false]]}] => bad link: rule 3, section 0
"page":1,"sections":[{"align":131072,"parts":[[1,false]]}] => bad link: rule 3, section 0
"page":1,"sections":[{"parts":[[1,false]]},{"parts":[]}] => bad link: rule 3, section 1
"page":1,"sections":[{"parts":[[0,false]]}] => bad link: rule 3, section 0
"page":1,"sections":[{"parts":[[3,false]]}] => bad link: rule 3, section 0
"page":1,"sections":[{"parts":[[131072,false]]}] => bad link: rule 3, section 0
"page":1,"sections":[{"parts":[[8,false],[8,true]]}] => bad link: rule 3, section 0
"page":1,"sections":[{"parts":[[8,false],[1,false],[2,false]]}] => bad link: rule 3, section 0
# Three sections, of which some are secondary to others.
@ {"plan":{"page":1,"sections":[...],"events":[["sec",0],["sec",1],["sec",2]]},"groups":[[{"kind":"prelude"}]]}
{"parts":[[1,false]]},{"parts":[[1,false]],"primary":0},{"parts":[[1,false]],"primary":0} => well formed
{"parts":[[1,false]],"primary":2},{"parts":[[1,false]],"primary":2},{"parts":[[1,false]]} => well formed
{"parts":[[1,false]]},{"parts":[[1,false]],"primary":1},{"parts":[[1,false]]} => bad link: rule 3, section 1
{"parts":[[1,false]]},{"parts":[[1,false]],"primary":2},{"parts":[[1,false]],"primary":0} => bad link: rule 3, section 1
{"parts":[[1,false]]},{"parts":[[1,false]],"primary":3},{"parts":[[1,false]]} => bad link: rule 3, section 1
{"parts":[[1,false]],"primary":1},{"parts":[[1,false]],"primary":0},{"parts":[[1,false]]} => bad link: rule 3, section 0
{"parts":[[1,false]],"primary":4294967295},{"parts":[[1,false]],"primary":1},{"parts":[[1,false]]} => bad link: rule 3, section 0
# Named parts. The plan has parts 0 to 3: of alignment 16, of alignment 8 and packed, of alignment 1, and of alignment 32.
@ {"options":{"branch_range":2097153},"plan":{"page":1,"sections":[{"parts":[[16,false],[8,true],[1,false]]},{"parts":[[32,false]]}],"events":[["sec",0],["sec",1]],...},"groups":[[{"kind":"prelude"}]]}
"got":0,"plt":1,"shstrtab":3,"comment":2,"primary":2 => well formed
"got":4 => bad link: rule 4, part field 0
"got":4,"plt":4 => bad link: rule 4, part field 0
"got":0,"plt":0 => bad link: rule 4, part field 1
"plt":0,"symtab_local":0 => bad link: rule 4, part field 2
"symtab_local":0,"symtab_global":0 => bad link: rule 4, part field 3
"symtab_global":0,"strtab":0 => bad link: rule 4, part field 4
"strtab":0,"dynsym":0 => bad link: rule 4, part field 5
"dynsym":0,"dynstr":0 => bad link: rule 4, part field 6
"dynstr":0,"file_header":0 => bad link: rule 4, part field 7
"file_header":0,"program_headers":0 => bad link: rule 4, part field 8
"program_headers":0,"section_headers":0 => bad link: rule 4, part field 9
"section_headers":0,"shstrtab":0 => bad link: rule 4, part field 10
"got":1,"shstrtab":1 => bad link: rule 4, part field 10
"shstrtab":4294967295 => bad link: rule 4, part field 10
"comment":2,"dynstr":2 => bad link: rule 4, part field 11
"comment":0 => bad link: rule 4, part field 11
"comment":4 => bad link: rule 4, part field 11
"comment":2,"primary":1 => bad link: rule 4, part field 12
"primary":0 => well formed
"primary":3 => bad link: rule 4, part field 12
"primary":4 => bad link: rule 4, part field 12
"primary":0,"strtab":0 => bad link: rule 4, part field 12
# A primary part only where branches are limited.
@ {"options":{"branch_range":0},"plan":{"page":1,"sections":[{"parts":[[16,false]]}],"events":[["sec",0]],...},"groups":[[{"kind":"prelude"}]]}
"primary":0 => bad link: rule 4, part field 12
# The section of singletons, of a plan with two sections: in partial output,
@ {"options":{"output":"partial"},"plan":{"page":1,"sections":[{"parts":[[1,false]]},{"parts":[[1,false]]}],"events":[["sec",0],["sec",1]]...},"groups":[[{"kind":"prelude"}]]}
 => well formed
,"singletons":0 => well formed
,"singletons":1 => well formed
,"singletons":2 => bad link: rule 5, plan
,"singletons":4294967295 => bad link: rule 5, plan
# and in other output.
@ {"options":{...},"plan":{"page":1,"sections":[{"parts":[[1,false]]},{"parts":[[1,false]]}],"events":[["sec",0],["sec",1]],"singletons":1},"groups":[[{"kind":"prelude"}]]}
"output":"partial" => well formed
"output":"static" => bad link: rule 5, plan
"output":"dynamic" => bad link: rule 5, plan
"output":"shared" => bad link: rule 5, plan
 => bad link: rule 5, plan
# Three segments, one behind the other.
@ {"plan":{"page":1,"segments":[...],"events":[["seg",0],["endseg",0],["seg",1],["endseg",1],["seg",2],["endseg",2]]},"groups":[[{"kind":"prelude"}]]}
{"kind":"load"},{"kind":"tls"},{"kind":"stack"} => well formed
{"kind":"load"},{"kind":"load"},{"kind":"other"} => well formed
{"kind":"tls"},{"kind":"tls"},{"kind":"load"} => bad link: rule 6, segment 1
{"kind":"tls"},{"kind":"other"},{"kind":"tls"} => bad link: rule 6, segment 2
{"kind":"tls"},{"kind":"tls"},{"kind":"tls"} => bad link: rule 6, segment 1
# Events, of one section and one segment.
@ {"plan":{"page":1,"sections":[{"parts":[[1,false]]}],"segments":[{"kind":"load"}],"events":[...]},"groups":[[{"kind":"prelude"}]]}
["seg",0],["sec",0],["endseg",0] => well formed
["seg",0],["endseg",0],["sec",0] => well formed
["sec",0],["sec",0],["seg",0],["endseg",0] => bad link: rule 7, event 1
["sec",1],["sec",0] => bad link: rule 7, event 0
["seg",0],["seg",0],["sec",0] => bad link: rule 7, event 1
["endseg",0],["sec",0],["seg",0] => bad link: rule 7, event 0
["sec",0],["seg",0],["endseg",0],["endseg",0] => bad link: rule 7, event 3
["sec",0],["seg",1],["endseg",1] => bad link: rule 7, event 1
["sec",0],["seg",0],["endseg",1] => bad link: rule 7, event 2
# What is missing is told at the number of events.
["sec",0],["seg",0] => bad link: rule 7, event 2
["seg",0],["endseg",0] => bad link: rule 7, event 2
 => bad link: rule 7, event 0
# Moves of the location, and a file behind an object.
@ {"plan":{"page":1,"sections":[{"parts":[[1,false]]}],"events":[...}]]}
["loc",["dot"]],["loc",["dot"]],["sec",0]]},"groups":[[{"kind":"prelude"}],[{"kind":"object"}],[{"kind":"script" => well formed
["locrel",["dot"],0],["sec",0],["locrel",["dot"],0]]},"groups":[[{"kind":"prelude"}],[{"kind":"object"}],[{"kind":"script" => well formed
["locrel",["dot"],1],["sec",0]]},"groups":[[{"kind":"prelude"}],[{"kind":"object"}],[{"kind":"script" => bad link: rule 7, event 0
["addr",["dot"]],["addr",["dot"]],["sec",0]]},"groups":[[{"kind":"prelude"}],[{"kind":"object" => well formed
["loc",["dot"]],["sec",0]]},"groups":[[{"kind":"prelude"}],[{"kind":"object" => bad link: rule 7, event 0
["sec",0],["locrel",["dot"],0]]},"groups":[[{"kind":"prelude"}],[{"kind":"object" => bad link: rule 7, event 1
["loc",["dot"]],["sec",0]]},"groups":[[{"kind":"prelude"}],[{"kind":"synthetic" => bad link: rule 7, event 0
["loc",["dot"]],["sec",0]]},"groups":[[{"kind":"prelude"}],[{"kind":"dynamic" => bad link: rule 7, event 0
["loc",["dot"]],["sec",0]]},"groups":[[{"kind":"prelude"}],[{"kind":"notloaded" => bad link: rule 7, event 0
# Expressions, of a plan with a section and a region, and of a link with two symbols.
@ {"plan":{"page":1,"base":...}],[{"kind":"object","symbols":[{"at":["undef"]}]}]]}
«98 of ["add",["num",1]»,["num",0]]]]]]]]]]]]]]]]]]]]]]]]]]]]]]]]]]]]]]]]]]]]]]]]]]]]]]]]]]]]]]]]]]]]]]]]]]]]]]]]]]]]]]]]]]]]]]]]]]],"sections":[{"parts":[[1,false]]}],"regions":[{"origin":["num",0],"length":["num",1]}],"events":[["sec",0]]},"groups":[[{"kind":"prelude"}],[{"kind":"script","symbols":[{"at":["undefined"]}] => well formed
«99 of ["add",["num",1]»,["num",0]]]]]]]]]]]]]]]]]]]]]]]]]]]]]]]]]]]]]]]]]]]]]]]]]]]]]]]]]]]]]]]]]]]]]]]]]]]]]]]]]]]]]]]]]]]]]]]]]]]],"sections":[{"parts":[[1,false]]}],"regions":[{"origin":["num",0],"length":["num",1]}],"events":[["sec",0]]},"groups":[[{"kind":"prelude"}],[{"kind":"script","symbols":[{"at":["undefined"]}] => well formed
«100 of ["add",["num",1]»,["num",0]]]]]]]]]]]]]]]]]]]]]]]]]]]]]]]]]]]]]]]]]]]]]]]]]]]]]]]]]]]]]]]]]]]]]]]]]]]]]]]]]]]]]]]]]]]]]]]]]]]]],"sections":[{"parts":[[1,false]]}],"regions":[{"origin":["num",0],"length":["num",1]}],"events":[["sec",0]]},"groups":[[{"kind":"prelude"}],[{"kind":"script","symbols":[{"at":["undefined"]}] => bad link: rule 8, plan
«101 of ["add",["num",1]»,["num",0]]]]]]]]]]]]]]]]]]]]]]]]]]]]]]]]]]]]]]]]]]]]]]]]]]]]]]]]]]]]]]]]]]]]]]]]]]]]]]]]]]]]]]]]]]]]]]]]]]]]]],"sections":[{"parts":[[1,false]]}],"regions":[{"origin":["num",0],"length":["num",1]}],"events":[["sec",0]]},"groups":[[{"kind":"prelude"}],[{"kind":"script","symbols":[{"at":["undefined"]}] => bad link: rule 8, plan
["add",["add",["add",["add",["add",["add",["add",["add",["add",["add",["add",["add",["add",["add",["add",["add",["add",["add",["add",["add",["add",["add",["add",["add",["add",["add",["add",["add",["add",["add",["add",["add",["add",["add",["add",["add",["add",["add",["add",["add",["add",["add",["add",["add",["add",["add",["add",["add",["add",["add",["add",["add",["add",["add",["add",["add",["add",["add",["add",["add",["add",["add",["add",["add",["add",["add",["add",["add",["add",["add",["add",["add",["add",["add",["add",["add",["add",["add",["add",["add",["add",["add",["add",["add",["add",["add",["add",["add",["add",["add",["add",["add",["add",["add",["add",["add",["add",["add",["add",["num",0],["num",1]],["num",1]],["num",1]],["num",1]],["num",1]],["num",1]],["num",1]],["num",1]],["num",1]],["num",1]],["num",1]],["num",1]],["num",1]],["num",1]],["num",1]],["num",1]],["num",1]],["num",1]],["num",1]],["num",1]],["num",1]],["num",1]],["num",1]],["num",1]],["num",1]],["num",1]],["num",1]],["num",1]],["num",1]],["num",1]],["num",1]],["num",1]],["num",1]],["num",1]],["num",1]],["num",1]],["num",1]],["num",1]],["num",1]],["num",1]],["num",1]],["num",1]],["num",1]],["num",1]],["num",1]],["num",1]],["num",1]],["num",1]],["num",1]],["num",1]],["num",1]],["num",1]],["num",1]],["num",1]],["num",1]],["num",1]],["num",1]],["num",1]],["num",1]],["num",1]],["num",1]],["num",1]],["num",1]],["num",1]],["num",1]],["num",1]],["num",1]],["num",1]],["num",1]],["num",1]],["num",1]],["num",1]],["num",1]],["num",1]],["num",1]],["num",1]],["num",1]],["num",1]],["num",1]],["num",1]],["num",1]],["num",1]],["num",1]],["num",1]],["num",1]],["num",1]],["num",1]],["num",1]],["num",1]],["num",1]],["num",1]],["num",1]],["num",1]],["num",1]],["num",1]],["num",1]],["num",1]],["num",1]],["num",1]],"sections":[{"parts":[[1,false]]}],"regions":[{"origin":["num",0],"length":["num",1]}],"events":[["sec",0]]},"groups":[[{"kind":"prelude"}],[{"kind":"script","symbols":[{"at":["undefined"]}] => well formed
["add",["add",["add",["add",["add",["add",["add",["add",["add",["add",["add",["add",["add",["add",["add",["add",["add",["add",["add",["add",["add",["add",["add",["add",["add",["add",["add",["add",["add",["add",["add",["add",["add",["add",["add",["add",["add",["add",["add",["add",["add",["add",["add",["add",["add",["add",["add",["add",["add",["add",["add",["add",["add",["add",["add",["add",["add",["add",["add",["add",["add",["add",["add",["add",["add",["add",["add",["add",["add",["add",["add",["add",["add",["add",["add",["add",["add",["add",["add",["add",["add",["add",["add",["add",["add",["add",["add",["add",["add",["add",["add",["add",["add",["add",["add",["add",["add",["add",["add",["add",["num",0],["num",1]],["num",1]],["num",1]],["num",1]],["num",1]],["num",1]],["num",1]],["num",1]],["num",1]],["num",1]],["num",1]],["num",1]],["num",1]],["num",1]],["num",1]],["num",1]],["num",1]],["num",1]],["num",1]],["num",1]],["num",1]],["num",1]],["num",1]],["num",1]],["num",1]],["num",1]],["num",1]],["num",1]],["num",1]],["num",1]],["num",1]],["num",1]],["num",1]],["num",1]],["num",1]],["num",1]],["num",1]],["num",1]],["num",1]],["num",1]],["num",1]],["num",1]],["num",1]],["num",1]],["num",1]],["num",1]],["num",1]],["num",1]],["num",1]],["num",1]],["num",1]],["num",1]],["num",1]],["num",1]],["num",1]],["num",1]],["num",1]],["num",1]],["num",1]],["num",1]],["num",1]],["num",1]],["num",1]],["num",1]],["num",1]],["num",1]],["num",1]],["num",1]],["num",1]],["num",1]],["num",1]],["num",1]],["num",1]],["num",1]],["num",1]],["num",1]],["num",1]],["num",1]],["num",1]],["num",1]],["num",1]],["num",1]],["num",1]],["num",1]],["num",1]],["num",1]],["num",1]],["num",1]],["num",1]],["num",1]],["num",1]],["num",1]],["num",1]],["num",1]],["num",1]],["num",1]],["num",1]],["num",1]],["num",1]],["num",1]],"sections":[{"parts":[[1,false]]}],"regions":[{"origin":["num",0],"length":["num",1]}],"events":[["sec",0]]},"groups":[[{"kind":"prelude"}],[{"kind":"script","symbols":[{"at":["undefined"]}] => bad link: rule 8, plan
["max",["add",["add",["add",["add",["add",["add",["add",["add",["add",["add",["add",["add",["add",["add",["add",["add",["add",["add",["add",["add",["add",["add",["add",["add",["add",["add",["add",["add",["add",["add",["add",["add",["add",["add",["add",["add",["add",["add",["add",["add",["add",["add",["add",["add",["add",["add",["add",["add",["add",["add",["add",["add",["add",["add",["add",["add",["add",["add",["add",["add",["add",["add",["add",["add",["add",["add",["add",["add",["add",["add",["add",["add",["add",["add",["add",["add",["add",["add",["add",["add",["add",["add",["add",["add",["add",["add",["add",["add",["add",["add",["add",["add",["add",["add",["add",["add",["add",["add",["num",0],["num",1]],["num",1]],["num",1]],["num",1]],["num",1]],["num",1]],["num",1]],["num",1]],["num",1]],["num",1]],["num",1]],["num",1]],["num",1]],["num",1]],["num",1]],["num",1]],["num",1]],["num",1]],["num",1]],["num",1]],["num",1]],["num",1]],["num",1]],["num",1]],["num",1]],["num",1]],["num",1]],["num",1]],["num",1]],["num",1]],["num",1]],["num",1]],["num",1]],["num",1]],["num",1]],["num",1]],["num",1]],["num",1]],["num",1]],["num",1]],["num",1]],["num",1]],["num",1]],["num",1]],["num",1]],["num",1]],["num",1]],["num",1]],["num",1]],["num",1]],["num",1]],["num",1]],["num",1]],["num",1]],["num",1]],["num",1]],["num",1]],["num",1]],["num",1]],["num",1]],["num",1]],["num",1]],["num",1]],["num",1]],["num",1]],["num",1]],["num",1]],["num",1]],["num",1]],["num",1]],["num",1]],["num",1]],["num",1]],["num",1]],["num",1]],["num",1]],["num",1]],["num",1]],["num",1]],["num",1]],["num",1]],["num",1]],["num",1]],["num",1]],["num",1]],["num",1]],["num",1]],["num",1]],["num",1]],["num",1]],["num",1]],["num",1]],["num",1]],["num",1]],["num",1]],["num",1]],["num",1]],["num",1]],«98 of ["add",["num",1]»,["num",0]]]]]]]]]]]]]]]]]]]]]]]]]]]]]]]]]]]]]]]]]]]]]]]]]]]]]]]]]]]]]]]]]]]]]]]]]]]]]]]]]]]]]]]]]]]]]]]]]]]],"sections":[{"parts":[[1,false]]}],"regions":[{"origin":["num",0],"length":["num",1]}],"events":[["sec",0]]},"groups":[[{"kind":"prelude"}],[{"kind":"script","symbols":[{"at":["undefined"]}] => well formed
["max",["add",["add",["add",["add",["add",["add",["add",["add",["add",["add",["add",["add",["add",["add",["add",["add",["add",["add",["add",["add",["add",["add",["add",["add",["add",["add",["add",["add",["add",["add",["add",["add",["add",["add",["add",["add",["add",["add",["add",["add",["add",["add",["add",["add",["add",["add",["add",["add",["add",["add",["add",["add",["add",["add",["add",["add",["add",["add",["add",["add",["add",["add",["add",["add",["add",["add",["add",["add",["add",["add",["add",["add",["add",["add",["add",["add",["add",["add",["add",["add",["add",["add",["add",["add",["add",["add",["add",["add",["add",["add",["add",["add",["add",["add",["add",["add",["add",["add",["add",["num",0],["num",1]],["num",1]],["num",1]],["num",1]],["num",1]],["num",1]],["num",1]],["num",1]],["num",1]],["num",1]],["num",1]],["num",1]],["num",1]],["num",1]],["num",1]],["num",1]],["num",1]],["num",1]],["num",1]],["num",1]],["num",1]],["num",1]],["num",1]],["num",1]],["num",1]],["num",1]],["num",1]],["num",1]],["num",1]],["num",1]],["num",1]],["num",1]],["num",1]],["num",1]],["num",1]],["num",1]],["num",1]],["num",1]],["num",1]],["num",1]],["num",1]],["num",1]],["num",1]],["num",1]],["num",1]],["num",1]],["num",1]],["num",1]],["num",1]],["num",1]],["num",1]],["num",1]],["num",1]],["num",1]],["num",1]],["num",1]],["num",1]],["num",1]],["num",1]],["num",1]],["num",1]],["num",1]],["num",1]],["num",1]],["num",1]],["num",1]],["num",1]],["num",1]],["num",1]],["num",1]],["num",1]],["num",1]],["num",1]],["num",1]],["num",1]],["num",1]],["num",1]],["num",1]],["num",1]],["num",1]],["num",1]],["num",1]],["num",1]],["num",1]],["num",1]],["num",1]],["num",1]],["num",1]],["num",1]],["num",1]],["num",1]],["num",1]],["num",1]],["num",1]],["num",1]],["num",1]],["num",1]],["num",1]],["num",1]],["dot"]],"sections":[{"parts":[[1,false]]}],"regions":[{"origin":["num",0],"length":["num",1]}],"events":[["sec",0]]},"groups":[[{"kind":"prelude"}],[{"kind":"script","symbols":[{"at":["undefined"]}] => bad link: rule 8, plan
["max",["dot"],«99 of ["add",["num",1]»,["num",0]]]]]]]]]]]]]]]]]]]]]]]]]]]]]]]]]]]]]]]]]]]]]]]]]]]]]]]]]]]]]]]]]]]]]]]]]]]]]]]]]]]]]]]]]]]]]]]]]]]]],"sections":[{"parts":[[1,false]]}],"regions":[{"origin":["num",0],"length":["num",1]}],"events":[["sec",0]]},"groups":[[{"kind":"prelude"}],[{"kind":"script","symbols":[{"at":["undefined"]}] => bad link: rule 8, plan
["sym",1],"sections":[{"parts":[[1,false]]}],"regions":[{"origin":["num",0],"length":["num",1]}],"events":[["sec",0]]},"groups":[[{"kind":"prelude"}],[{"kind":"script","symbols":[{"at":["undefined"]}] => well formed
["sym",2],"sections":[{"parts":[[1,false]]}],"regions":[{"origin":["num",0],"length":["num",1]}],"events":[["sec",0]]},"groups":[[{"kind":"prelude"}],[{"kind":"script","symbols":[{"at":["undefined"]}] => bad link: rule 8, plan
["addr",0],"sections":[{"parts":[[1,false]]}],"regions":[{"origin":["num",0],"length":["num",1]}],"events":[["sec",0]]},"groups":[[{"kind":"prelude"}],[{"kind":"script","symbols":[{"at":["undefined"]}] => well formed
["addr",1],"sections":[{"parts":[[1,false]]}],"regions":[{"origin":["num",0],"length":["num",1]}],"events":[["sec",0]]},"groups":[[{"kind":"prelude"}],[{"kind":"script","symbols":[{"at":["undefined"]}] => bad link: rule 8, plan
["sizeof",0],"sections":[{"parts":[[1,false]]}],"regions":[{"origin":["num",0],"length":["num",1]}],"events":[["sec",0]]},"groups":[[{"kind":"prelude"}],[{"kind":"script","symbols":[{"at":["undefined"]}] => well formed
["sizeof",1],"sections":[{"parts":[[1,false]]}],"regions":[{"origin":["num",0],"length":["num",1]}],"events":[["sec",0]]},"groups":[[{"kind":"prelude"}],[{"kind":"script","symbols":[{"at":["undefined"]}] => bad link: rule 8, plan
["origin",0],"sections":[{"parts":[[1,false]]}],"regions":[{"origin":["num",0],"length":["num",1]}],"events":[["sec",0]]},"groups":[[{"kind":"prelude"}],[{"kind":"script","symbols":[{"at":["undefined"]}] => well formed
["origin",1],"sections":[{"parts":[[1,false]]}],"regions":[{"origin":["num",0],"length":["num",1]}],"events":[["sec",0]]},"groups":[[{"kind":"prelude"}],[{"kind":"script","symbols":[{"at":["undefined"]}] => bad link: rule 8, plan
["length",0],"sections":[{"parts":[[1,false]]}],"regions":[{"origin":["num",0],"length":["num",1]}],"events":[["sec",0]]},"groups":[[{"kind":"prelude"}],[{"kind":"script","symbols":[{"at":["undefined"]}] => well formed
["length",4294967295],"sections":[{"parts":[[1,false]]}],"regions":[{"origin":["num",0],"length":["num",1]}],"events":[["sec",0]]},"groups":[[{"kind":"prelude"}],[{"kind":"script","symbols":[{"at":["undefined"]}] => bad link: rule 8, plan
["headers"],"sections":[{"parts":[[1,false]]}],"regions":[{"origin":["num",0],"length":["num",1]}],"events":[["sec",0]]},"groups":[[{"kind":"prelude"}],[{"kind":"script","symbols":[{"at":["undefined"]}] => well formed
["add",["dot"],["sym",2]],"sections":[{"parts":[[1,false]]}],"regions":[{"origin":["num",0],"length":["num",1]}],"events":[["sec",0]]},"groups":[[{"kind":"prelude"}],[{"kind":"script","symbols":[{"at":["undefined"]}] => bad link: rule 8, plan
["add",["sym",2],["dot"]],"sections":[{"parts":[[1,false]]}],"regions":[{"origin":["num",0],"length":["num",1]}],"events":[["sec",0]]},"groups":[[{"kind":"prelude"}],[{"kind":"script","symbols":[{"at":["undefined"]}] => bad link: rule 8, plan
# Those of regions, sections, events and symbols, in this order.
@ {"plan":{"page":1,...]}
"regions":[{"origin":["origin",0],"length":["length",0]},{"origin":["dot"],"length":["length",2]}]},"groups":[[{"kind":"prelude"}] => bad link: rule 8, region 1
"regions":[{"origin":["origin",1],"length":["dot"]}],"sections":[{"parts":[[1,false]],"at":["addr",1]}],"events":[["sec",0]]},"groups":[[{"kind":"prelude"}] => bad link: rule 8, region 0
"sections":[{"parts":[[1,false]],"at":["addr",1]},{"parts":[[1,false]],"at":["addr",2]}],"events":[["sec",0],["addr",["sym",0]],["sec",1]]},"groups":[[{"kind":"prelude"}] => bad link: rule 8, section 1
"events":[["loc",["num",1]],["addr",["sym",1]]]},"groups":[[{"kind":"prelude","symbols":[{"at":["redirect",["sym",1],["none"],false]}]}],[{"kind":"script"}] => bad link: rule 8, event 1
"events":[["loc",["sym",1]]]},"groups":[[{"kind":"prelude","symbols":[{"at":["undefined"]}]}],[{"kind":"script"}] => bad link: rule 8, event 0
"sections":[{"parts":[[1,false]]}],"events":[["sec",0],["locrel",["sym",0],0]]},"groups":[[{"kind":"prelude"}],[{"kind":"script"}] => bad link: rule 8, event 1
"events":[["loc",["sym",0]],["addr",["sym",0]]]},"groups":[[{"kind":"prelude","symbols":[{"at":["redirect",["sym",0],["none"],false]}]}],[{"kind":"script"}] => well formed
"events":[]},"groups":[[{"kind":"prelude","symbols":[{"at":["undefined"]}]}],[{"kind":"script","symbols":[{"at":["redirect",["sym",2],["none"],true]},{"at":["redirect",["sym",3],["none"],true]}]}] => bad link: rule 8, symbol 2
"events":[]},"groups":[[{"kind":"prelude"}],[{"kind":"object","symbols":[{"at":["redirect",["sym",9],["none"],false]}]}] => bad link: rule 8, symbol 0
# The prelude.
@ {"plan":{"page":1},"groups":[...]}
[{"kind":"prelude"}],[],[{"kind":"object"}] => well formed
[{"kind":"prelude"}],[{"kind":"script"}],[] => well formed
 => bad link: rule 9, file 0 0
[],[{"kind":"prelude"}] => bad link: rule 9, file 0 0
[{"kind":"object"}] => bad link: rule 9, file 0 0
[{"kind":"object"}],[{"kind":"prelude"}] => bad link: rule 9, file 0 0
[{"kind":"prelude"}],[],[{"kind":"prelude"}],[{"kind":"prelude"}] => bad link: rule 9, file 2 0
[{"kind":"prelude"},{"kind":"object"},{"kind":"prelude"}] => bad link: rule 9, file 0 2
# Placements of symbol 1, of an object with a section of 8 bytes and a merge section. The plan has sections of the parts 0
# and 1, and of part 2, which is a table, and two events that move the location counter.
@ {"plan":{"page":1,"sections":[{"parts":[[8,false],[1,false]]},{"parts":[[8,false]]}],"events":[["loc",["dot"]],["sec",0],["addr",["dot"]],["locrel",["dot"],0],["sec",1]],"got":2},"groups":[[{"kind":"prelude"}],[{"kind":"script","symbols":[{"at":["undefined"]}]}],[{"kind":"object","symbols":[{"at":[...]}],"sections":[{"slot":"must","size":8},{"slot":"merge","part":1,"data":"00"}]}]]}
"sec",0,0 => well formed
"sec",0,8 => well formed
"sec",0,9 => bad link: rule 10, symbol 1
"sec",1,18446744073709551615 => well formed
"sec",2,0 => bad link: rule 10, symbol 1
"common",0,8 => well formed
"common",2,8 => bad link: rule 10, symbol 1
"common",3,8 => bad link: rule 10, symbol 1
"abs",18446744073709551615 => well formed
"undef" => well formed
"dyn" => bad link: rule 10, symbol 1
"undefined" => bad link: rule 10, symbol 1
"start",0 => bad link: rule 10, symbol 1
"tlsend" => bad link: rule 10, symbol 1
"redirect",["num",0],["none"],false => bad link: rule 10, symbol 1
# Of a dynamic file
@ {"plan":{"page":1,"sections":[{"parts":[[8,false],[1,false]]},{"parts":[[8,false]]}],"events":[["loc",["dot"]],["sec",0],["addr",["dot"]],["locrel",["dot"],0],["sec",1]],"got":2},"groups":[[{"kind":"prelude"}],[{"kind":"script","symbols":[{"at":["undefined"]}]}],[{"kind":"dynamic","symbols":[{"at":[...]}],"sections":[{"slot":"must","size":8},{"slot":"merge","part":1,"data":"00"}]}]]}
"dyn" => well formed
"undef" => well formed
"sec",0,0 => bad link: rule 10, symbol 1
"common",0,0 => bad link: rule 10, symbol 1
"abs",0 => bad link: rule 10, symbol 1
"force" => bad link: rule 10, symbol 1
# and of one that is not loaded.
@ {"plan":{"page":1,"sections":[{"parts":[[8,false],[1,false]]},{"parts":[[8,false]]}],"events":[["loc",["dot"]],["sec",0],["addr",["dot"]],["locrel",["dot"],0],["sec",1]],"got":2},"groups":[[{"kind":"prelude"}],[{"kind":"script","symbols":[{"at":["undefined"]}]}],[{"kind":"notloaded","symbols":[{"at":[...]}],"sections":[{"slot":"must","size":8},{"slot":"merge","part":1,"data":"00"}]}]]}
"dyn" => well formed
"undef" => well formed
"sec",0,0 => bad link: rule 10, symbol 1
"common",0,0 => bad link: rule 10, symbol 1
"abs",0 => bad link: rule 10, symbol 1
"force" => bad link: rule 10, symbol 1
# Of a synthetic file
@ {"plan":{"page":1,"sections":[{"parts":[[8,false],[1,false]]},{"parts":[[8,false]]}],"events":[["loc",["dot"]],["sec",0],["addr",["dot"]],["locrel",["dot"],0],["sec",1]],"got":2},"groups":[[{"kind":"prelude"}],[{"kind":"script","symbols":[{"at":["undefined"]}]}],[{"kind":"synthetic","symbols":[{"at":[...]}],"sections":[{"slot":"must","size":8},{"slot":"merge","part":1,"data":"00"}]}]]}
"undefined" => well formed
"force" => well formed
"tlsend" => well formed
"loadbase" => well formed
"start",1 => well formed
"start",2 => bad link: rule 10, symbol 1
"end",1 => well formed
"end",2 => bad link: rule 10, symbol 1
"groupend",1 => well formed
"groupend",2 => bad link: rule 10, symbol 1
"undef" => bad link: rule 10, symbol 1
"abs",0 => bad link: rule 10, symbol 1
"dyn" => bad link: rule 10, symbol 1
"sec",0,0 => bad link: rule 10, symbol 1
"common",0,8 => bad link: rule 10, symbol 1
# A redirect names a place of the location counter.
"redirect",["num",0],["none"],false => well formed
"redirect",["num",0],["start",1],false => well formed
"redirect",["num",0],["start",2],false => bad link: rule 10, symbol 1
"redirect",["num",0],["end",1],false => well formed
"redirect",["num",0],["end",2],false => bad link: rule 10, symbol 1
"redirect",["num",0],["counter",0],false => well formed
"redirect",["num",0],["counter",2],false => well formed
"redirect",["num",0],["counter",3],false => bad link: rule 10, symbol 1
"redirect",["num",0],["counter",4294967295],false => bad link: rule 10, symbol 1
# and of a script.
@ {"plan":{"page":1,"sections":[{"parts":[[8,false],[1,false]]},{"parts":[[8,false]]}],"events":[["loc",["dot"]],["sec",0],["addr",["dot"]],["locrel",["dot"],0],["sec",1]],"got":2},"groups":[[{"kind":"prelude"}],[{"kind":"script","symbols":[{"at":["undefined"]}]}],[{"kind":"script","symbols":[{"at":[...]}],"sections":[{"slot":"must","size":8},{"slot":"merge","part":1,"data":"00"}]}]]}
"undefined" => well formed
"force" => well formed
"tlsend" => well formed
"loadbase" => well formed
"start",1 => well formed
"start",2 => bad link: rule 10, symbol 1
"end",1 => well formed
"end",2 => bad link: rule 10, symbol 1
"groupend",1 => well formed
"groupend",2 => bad link: rule 10, symbol 1
"undef" => bad link: rule 10, symbol 1
"abs",0 => bad link: rule 10, symbol 1
"dyn" => bad link: rule 10, symbol 1
"sec",0,0 => bad link: rule 10, symbol 1
"common",0,8 => bad link: rule 10, symbol 1
# A redirect names a place of the location counter.
"redirect",["num",0],["none"],false => well formed
"redirect",["num",0],["start",1],false => well formed
"redirect",["num",0],["start",2],false => bad link: rule 10, symbol 1
"redirect",["num",0],["end",1],false => well formed
"redirect",["num",0],["end",2],false => bad link: rule 10, symbol 1
"redirect",["num",0],["counter",0],false => well formed
"redirect",["num",0],["counter",2],false => well formed
"redirect",["num",0],["counter",3],false => bad link: rule 10, symbol 1
"redirect",["num",0],["counter",4294967295],false => bad link: rule 10, symbol 1
# Of the prelude.
@ {"plan":{"page":1},"groups":[[{"kind":"prelude","symbols":[{"at":[...]}]}]]}
"loadbase" => well formed
"undef" => bad link: rule 10, symbol 0
# What stands for a symbol: three symbols in files of their own.
@ {"plan":{"page":1},"groups":[[{"kind":"prelude"}],[{"kind":"object","symbols":[{"at":["undef"]...}]}]]}
}]},{"kind":"object","symbols":[{"at":["undef"],"def":0}]},{"kind":"object","symbols":[{"at":["undef"],"def":0 => well formed
,"def":0}]},{"kind":"object","symbols":[{"at":["undef"],"def":1}]},{"kind":"object","symbols":[{"at":["undef"],"def":0,"flags":63 => well formed
}]},{"kind":"object","symbols":[{"at":["undef"]}]},{"kind":"object","symbols":[{"at":["undef"],"flags":64 => bad link: rule 10, symbol 2
}]},{"kind":"object","symbols":[{"at":["undef"],"def":0}]},{"kind":"object","symbols":[{"at":["undef"],"def":1 => bad link: rule 10, symbol 2
}]},{"kind":"object","symbols":[{"at":["undef"],"def":3}]},{"kind":"object","symbols":[{"at":["undef"],"def":3 => bad link: rule 10, symbol 1
,"def":2}]},{"kind":"object","symbols":[{"at":["undef"]}]},{"kind":"object","symbols":[{"at":["undef"],"def":1 => bad link: rule 10, symbol 0
,"def":4294967295}]},{"kind":"object","symbols":[{"at":["undef"]}]},{"kind":"object","symbols":[{"at":["undef"],"flags":64 => bad link: rule 10, symbol 0
# The second section of an object with two symbols. The plan has parts 0 and 1, of alignments 8 and 1; part 2, which is
# packed; part 3, whose input sections stay sections of their own; and part 4, a table.
@ {"options":{"output":"partial"},"plan":{"page":1,"sections":[{"parts":[[8,false],[1,false]]},{"parts":[[1,true]]},{"parts":[[1,false]]},{"parts":[[1,false]]}],"events":[["sec",0],["sec",1],["sec",2],["sec",3]],"shstrtab":4,"singletons":2},"groups":[[{"kind":"prelude"}],[{"kind":"object","symbols":[{"at":["undef"]},{"at":["undef"]}],"sections":[{"slot":"must","size":8},{...}]}]]}
"slot":"must","part":0 => well formed
"slot":"must","part":1 => well formed
"slot":"must","part":2 => well formed
"slot":"must","part":3 => well formed
"slot":"must","part":4 => bad link: rule 11, input 1 0 1
"slot":"must","part":5 => bad link: rule 11, input 1 0 1
"slot":"must","part":4294967295 => bad link: rule 11, input 1 0 1
"slot":"merge","part":0 => bad link: rule 11, input 1 0 1
"slot":"merge","part":1 => well formed
"slot":"merge","part":2 => well formed
"slot":"merge","part":4 => bad link: rule 11, input 1 0 1
"slot":"discard","part":4 => well formed
"slot":"discard","part":4294967295 => well formed
# Some slots are sorted.
"slot":"unloaded","part":0,"sorted":true => well formed
"slot":"must","part":1,"sorted":true => well formed
"slot":"must","part":2,"sorted":true => bad link: rule 11, input 1 0 1
"slot":"debug","part":0,"sorted":true => bad link: rule 11, input 1 0 1
"slot":"mustdebug","part":0,"sorted":true => bad link: rule 11, input 1 0 1
"slot":"merge","part":1,"sorted":true => bad link: rule 11, input 1 0 1
"slot":"discard","part":2,"sorted":true => well formed
# Some stay sections of their own.
"slot":"unloaded","part":3 => well formed
"slot":"must","part":3,"sorted":true => bad link: rule 11, input 1 0 1
"slot":"debug","part":3 => bad link: rule 11, input 1 0 1
"slot":"mustdebug","part":3 => bad link: rule 11, input 1 0 1
"slot":"merge","part":3 => bad link: rule 11, input 1 0 1
"slot":"debug","part":0 => well formed
# Attributes.
"slot":"must","attrs":0 => well formed
"slot":"must","attrs":2 => well formed
"slot":"must","attrs":4 => well formed
"slot":"must","attrs":6 => well formed
"slot":"must","attrs":1 => bad link: rule 11, input 1 0 1
"slot":"must","attrs":3 => bad link: rule 11, input 1 0 1
"slot":"must","attrs":7 => bad link: rule 11, input 1 0 1
"slot":"must","attrs":8 => bad link: rule 11, input 1 0 1
"slot":"must","attrs":22 => bad link: rule 11, input 1 0 1
"slot":"must","attrs":4294967295 => bad link: rule 11, input 1 0 1
# Relocations stand inside.
"slot":"must","size":8,"relocs":[[0,"Absolute",1,0,false],[7,"Absolute",0,0,false],[7,"Absolute",0,0,false],[3,"Absolute",1,0,false]] => well formed
"slot":"must","size":8,"relocs":[[8,"Absolute",0,0,false]] => bad link: rule 11, input 1 0 1
"slot":"must","size":8,"relocs":[[0,"Absolute",0,0,false],[18446744073709551615,"Absolute",0,0,false]] => bad link: rule 11, input 1 0 1
"slot":"must","size":8,"relocs":[[0,"Absolute",2,0,false]] => bad link: rule 11, input 1 0 1
"slot":"must","size":8,"relocs":[[0,"Absolute",1,0,false],[0,"Absolute",4294967295,0,false]] => bad link: rule 11, input 1 0 1
"slot":"debug","size":8,"relocs":[[8,"Absolute",0,0,false]] => bad link: rule 11, input 1 0 1
"slot":"discard","size":8,"relocs":[[8,"Absolute",2,0,false]] => well formed
# Where one begins, its symbol, its limit, how much it takes.
"slot":"must","size":8,"relax":[[0,0,0,1],[1,1,0,2],[4,0,0,4]] => well formed
"slot":"must","size":8,"relax":[[0,1,0,8]] => well formed
"slot":"must","size":8,"relax":[[0,0,0,0]] => bad link: rule 11, input 1 0 1
"slot":"must","size":8,"relax":[[8,0,0,0]] => bad link: rule 11, input 1 0 1
"slot":"must","size":8,"relax":[[0,0,0,2],[1,0,0,1]] => bad link: rule 11, input 1 0 1
"slot":"must","size":8,"relax":[[4,0,0,1],[0,0,0,1]] => bad link: rule 11, input 1 0 1
"slot":"must","size":8,"relax":[[0,0,0,1],[4,0,0,5]] => bad link: rule 11, input 1 0 1
"slot":"must","size":8,"relax":[[18446744073709551615,0,0,18446744073709551615]] => bad link: rule 11, input 1 0 1
"slot":"must","size":8,"relax":[[0,0,0,18446744073709551615],[18446744073709551615,0,0,1]] => bad link: rule 11, input 1 0 1
"slot":"must","size":8,"relax":[[0,0,0,1],[1,2,0,1]] => bad link: rule 11, input 1 0 1
"slot":"discard","size":8,"relax":[[4,2,0,9],[0,2,0,0]] => well formed
# Sections of all files.
@ {"plan":{"page":1,"sections":[{"parts":[[1,false]]}],"events":[["sec",0]],"got":0},"groups":[[{"kind":"prelude"}],[{"kind":"object","sections":[...]}]]}
{"slot":"discard"},{"slot":"must"}]}],[{"kind":"object","sections":[{"slot":"must"},{"slot":"discard"} => bad link: rule 11, input 1 0 1
{"slot":"discard"},{"slot":"discard"}]}],[{"kind":"object","sections":[{"slot":"must"},{"slot":"must"} => bad link: rule 11, input 2 0 0
{"slot":"discard"},{"slot":"discard"}]},{"kind":"object"},{"kind":"object","sections":[{"slot":"must"} => bad link: rule 11, input 1 2 0
{"slot":"discard"},{"slot":"discard"}]}],[{"kind":"object","sections":[{"slot":"discard"} => well formed
# Relocations that want entries of tables: neither table has a part,
@ {"plan":{"page":1,"sections":[{"parts":[[8,false],[4,false],[1,false]]}],"events":[["sec",0]]},"groups":[[{"kind":"prelude"}],[{"kind":"object","symbols":[{"at":["undef"]}],"sections":[{"slot":"must","part":2},{"slot":...]}]}]]}
"must","part":2,"size":4,"relocs":[[0,"Relative",0,0,false],[1,"Got",0,0,false] => bad link: rule 12, input 1 0 1
"must","part":2,"size":4,"relocs":[[0,"Relative",0,0,false],[1,"PltRelative",0,0,false] => bad link: rule 12, input 1 0 1
"must","part":2,"size":4,"relocs":[[0,"Relative",0,0,false],[1,"TlsGd",0,0,false] => bad link: rule 12, input 1 0 1
"must","part":2,"size":4,"relocs":[[0,"Relative",0,0,false],[1,"TlsLd",0,0,false] => well formed
"must","part":2,"size":4,"relocs":[[0,"Relative",0,0,false],[1,"TlsLdGot",0,0,false] => well formed
"must","part":2,"size":4,"relocs":[[0,"Relative",0,0,false],[1,"TlsLdGotBase",0,0,false] => well formed
"must","part":2,"size":4,"relocs":[[0,"Relative",0,0,false],[1,"SymbolSize",0,0,false] => well formed
"must","part":2,"size":4,"relocs":[[0,"Relative",0,0,false],[1,"Absolute",0,0,false] => well formed
"discard","part":2,"size":4,"relocs":[[0,"Relative",0,0,false],[1,"Got",0,0,false] => bad link: rule 12, input 1 0 1
"discard","relocs":[[9,"PltRelGotBase",77,0,false] => bad link: rule 12, input 1 0 1
# that of the GOT alone does,
@ {"plan":{"page":1,"sections":[{"parts":[[8,false],[4,false],[1,false]]}],"events":[["sec",0]],"got":0},"groups":[[{"kind":"prelude"}],[{"kind":"object","symbols":[{"at":["undef"]}],"sections":[{"slot":"must","part":2},{"slot":...]}]}]]}
"must","part":2,"size":4,"relocs":[[0,"Relative",0,0,false],[1,"PltRelative",0,0,false] => bad link: rule 12, input 1 0 1
"must","part":2,"size":4,"relocs":[[0,"Relative",0,0,false],[1,"PltRelGotBase",0,0,false] => bad link: rule 12, input 1 0 1
"must","part":2,"size":4,"relocs":[[0,"Relative",0,0,false],[1,"Got",0,0,false] => well formed
"must","part":2,"size":4,"relocs":[[0,"Relative",0,0,false],[1,"GotRelGotBase",0,0,false] => well formed
"must","part":2,"size":4,"relocs":[[0,"Relative",0,0,false],[1,"GotRelative",0,0,false] => well formed
"must","part":2,"size":4,"relocs":[[0,"Relative",0,0,false],[1,"GotRelativeLoongArch64",0,0,false] => well formed
"must","part":2,"size":4,"relocs":[[0,"Relative",0,0,false],[1,"GotTpOff",0,0,false] => well formed
"must","part":2,"size":4,"relocs":[[0,"Relative",0,0,false],[1,"GotTpOffLoongArch64",0,0,false] => well formed
"must","part":2,"size":4,"relocs":[[0,"Relative",0,0,false],[1,"GotTpOffGot",0,0,false] => well formed
"must","part":2,"size":4,"relocs":[[0,"Relative",0,0,false],[1,"GotTpOffGotBase",0,0,false] => well formed
"must","part":2,"size":4,"relocs":[[0,"Relative",0,0,false],[1,"TlsGd",0,0,false] => well formed
"must","part":2,"size":4,"relocs":[[0,"Relative",0,0,false],[1,"TlsGdGot",0,0,false] => well formed
"must","part":2,"size":4,"relocs":[[0,"Relative",0,0,false],[1,"TlsGdGotBase",0,0,false] => well formed
"must","part":2,"size":4,"relocs":[[0,"Relative",0,0,false],[1,"TlsDesc",0,0,false] => well formed
"must","part":2,"size":4,"relocs":[[0,"Relative",0,0,false],[1,"TlsDescLoongArch64",0,0,false] => well formed
"must","part":2,"size":4,"relocs":[[0,"Relative",0,0,false],[1,"TlsDescGot",0,0,false] => well formed
"must","part":2,"size":4,"relocs":[[0,"Relative",0,0,false],[1,"TlsDescGotBase",0,0,false] => well formed
"must","part":2,"size":4,"relocs":[[0,"Relative",0,0,false],[1,"TlsDescCall",0,0,false] => well formed
# that of the PLT alone does,
@ {"plan":{"page":1,"sections":[{"parts":[[8,false],[4,false],[1,false]]}],"events":[["sec",0]],"plt":0},"groups":[[{"kind":"prelude"}],[{"kind":"object","symbols":[{"at":["undef"]}],"sections":[{"slot":"must","part":2},{"slot":...]}]}]]}
"must","part":2,"size":4,"relocs":[[0,"Relative",0,0,false],[1,"PltRelative",0,0,false] => bad link: rule 12, input 1 0 1
"must","part":2,"size":4,"relocs":[[0,"Relative",0,0,false],[1,"PltRelGotBase",0,0,false] => bad link: rule 12, input 1 0 1
"must","part":2,"size":4,"relocs":[[0,"Relative",0,0,false],[1,"Got",0,0,false] => bad link: rule 12, input 1 0 1
"must","part":2,"size":4,"relocs":[[0,"Relative",0,0,false],[1,"GotRelGotBase",0,0,false] => bad link: rule 12, input 1 0 1
"must","part":2,"size":4,"relocs":[[0,"Relative",0,0,false],[1,"GotRelative",0,0,false] => bad link: rule 12, input 1 0 1
"must","part":2,"size":4,"relocs":[[0,"Relative",0,0,false],[1,"GotRelativeLoongArch64",0,0,false] => bad link: rule 12, input 1 0 1
"must","part":2,"size":4,"relocs":[[0,"Relative",0,0,false],[1,"GotTpOff",0,0,false] => bad link: rule 12, input 1 0 1
"must","part":2,"size":4,"relocs":[[0,"Relative",0,0,false],[1,"GotTpOffLoongArch64",0,0,false] => bad link: rule 12, input 1 0 1
"must","part":2,"size":4,"relocs":[[0,"Relative",0,0,false],[1,"GotTpOffGot",0,0,false] => bad link: rule 12, input 1 0 1
"must","part":2,"size":4,"relocs":[[0,"Relative",0,0,false],[1,"GotTpOffGotBase",0,0,false] => bad link: rule 12, input 1 0 1
"must","part":2,"size":4,"relocs":[[0,"Relative",0,0,false],[1,"TlsGd",0,0,false] => bad link: rule 12, input 1 0 1
"must","part":2,"size":4,"relocs":[[0,"Relative",0,0,false],[1,"TlsGdGot",0,0,false] => bad link: rule 12, input 1 0 1
"must","part":2,"size":4,"relocs":[[0,"Relative",0,0,false],[1,"TlsGdGotBase",0,0,false] => bad link: rule 12, input 1 0 1
"must","part":2,"size":4,"relocs":[[0,"Relative",0,0,false],[1,"TlsDesc",0,0,false] => bad link: rule 12, input 1 0 1
"must","part":2,"size":4,"relocs":[[0,"Relative",0,0,false],[1,"TlsDescLoongArch64",0,0,false] => bad link: rule 12, input 1 0 1
"must","part":2,"size":4,"relocs":[[0,"Relative",0,0,false],[1,"TlsDescGot",0,0,false] => bad link: rule 12, input 1 0 1
"must","part":2,"size":4,"relocs":[[0,"Relative",0,0,false],[1,"TlsDescGotBase",0,0,false] => bad link: rule 12, input 1 0 1
"must","part":2,"size":4,"relocs":[[0,"Relative",0,0,false],[1,"TlsDescCall",0,0,false] => bad link: rule 12, input 1 0 1
# both do.
@ {"plan":{"page":1,"sections":[{"parts":[[8,false],[4,false],[1,false]]}],"events":[["sec",0]],"got":0,"plt":1},"groups":[[{"kind":"prelude"}],[{"kind":"object","symbols":[{"at":["undef"]}],"sections":[{"slot":"must","part":2},{"slot":...]}]}]]}
"must","part":2,"size":4,"relocs":[[0,"Relative",0,0,false],[1,"PltRelative",0,0,false] => well formed
"must","part":2,"size":4,"relocs":[[0,"Relative",0,0,false],[1,"PltRelGotBase",0,0,false] => well formed
"must","part":2,"size":4,"relocs":[[0,"Relative",0,0,false],[1,"Got",0,0,false] => well formed
# Candidates of a synthetic file. The plan has one section, and the link an object with a section.
@ {"plan":{"page":1,"sections":[{"parts":[[1,false]]}],"events":[["sec",0]]},"groups":[[{"kind":"prelude"}],[{"kind":"object","sections":[{"slot":"must"}]},{"kind":"synthetic","candidates":[...]},{"kind":"script","candidates":[[0,1,0,0]]}]]}
 => well formed
[0,1,0,0],[0,1,0,0] => well formed
[1,1,0,0] => bad link: rule 13, file 1 1
[0,2,0,0] => bad link: rule 13, file 1 1
[0,1,3,0] => bad link: rule 13, file 1 1
[0,1,0,1] => bad link: rule 13, file 1 1
[0,0,0,0] => bad link: rule 13, file 1 1
[0,1,1,0] => bad link: rule 13, file 1 1
[0,1,2,0] => bad link: rule 13, file 1 1
[0,1,0,0],[0,1,0,4294967295] => bad link: rule 13, file 1 1
# Data of a section of 2 bytes: as many are given in each slot, or none are; only a merge section's may be others.
@ {"plan":{"page":1,"sections":[{"parts":[[1,false]]}],"events":[["sec",0]]},"groups":[[{"kind":"prelude"}],[{"kind":"object","sections":[{"slot":"must"},{"slot":...}]}]]}
"discard","size":2,"data":"00fF" | "unloaded","size":2,"data":"00fF" | "must","size":2,"data":"00fF" | "debug","size":2,"data":"00fF" | "mustdebug","size":2,"data":"00fF" | "merge","size":2,"data":"00fF" => well formed
"discard","size":2 | "unloaded","size":2 | "must","size":2 | "debug","size":2 | "mustdebug","size":2 | "merge","size":2 => well formed
"discard","size":2,"data":"00" | "unloaded","size":2,"data":"00" | "must","size":2,"data":"00" | "debug","size":2,"data":"00" | "mustdebug","size":2,"data":"00" => bad link: rule 14, input 1 0 1
"discard","size":2,"data":"000102" | "unloaded","size":2,"data":"000102" | "must","size":2,"data":"000102" | "debug","size":2,"data":"000102" | "mustdebug","size":2,"data":"000102" => bad link: rule 14, input 1 0 1
"discard","size":2,"data":"" | "unloaded","size":2,"data":"" | "must","size":2,"data":"" | "debug","size":2,"data":"" | "mustdebug","size":2,"data":"" => bad link: rule 14, input 1 0 1
"merge","size":2,"data":"00" | "merge","size":2,"data":"000102" | "merge","size":2,"data":"" => well formed
# A section of no bytes, and one that is longer than any text.
"discard","data":"" | "unloaded","data":"" | "must","data":"" | "debug","data":"" | "mustdebug","size":0,"data":"" => well formed
"discard","data":"00" | "unloaded","data":"00" | "must","data":"00" | "debug","data":"00" | "mustdebug","size":0,"data":"00" => bad link: rule 14, input 1 0 1
"must","size":18446744073709551615 => well formed
"must","size":18446744073709551615,"data":"" | "must","size":256,"data":"" | "must","size":4294967297,"data":"00" => bad link: rule 14, input 1 0 1
"must","size":257,"data":"«257 times 5a»" => well formed
"must","size":257,"data":"«256 times 5a»" | "must","size":257,"data":"«258 times 5a»" => bad link: rule 14, input 1 0 1
"must","size":8,"data":"" => bad link: rule 14, input 1 0 1
# Of equal keys the last counts.
"must","data":"00","size":2,"data":"0001" => well formed
"must","data":"0001","size":2,"data":"00" => bad link: rule 14, input 1 0 1
# Sections of all files.
@ {"plan":{"page":1,"sections":[{"parts":[[1,false]]}],"events":[["sec",0]]},"groups":[[{"kind":"prelude"}],[{"kind":"object","sections":[...]}]]}
{"slot":"must","size":1,"data":"00"},{"slot":"must","size":1,"data":"0000"}]}],[{"kind":"object","sections":[{"slot":"must","size":1,"data":""} => bad link: rule 14, input 1 0 1
{"slot":"must","size":1,"data":"00"},{"slot":"must","size":1}]}],[{"kind":"object","sections":[{"slot":"must","size":1,"data":""},{"slot":"must","data":"00"} => bad link: rule 14, input 2 0 0
{"slot":"must","size":1,"data":"00"},{"slot":"must","size":1}]},{"kind":"object"},{"kind":"object","sections":[{"slot":"discard","data":"00"} => bad link: rule 14, input 1 2 0
{"slot":"must","size":1,"data":"00"},{"slot":"must","size":1}]}],[{"kind":"object","sections":[{"slot":"discard","size":1,"data":"00"} => well formed
# Three sections, of which the first has 8 bytes, and the second 7.
@ {"plan":{"page":4096,"base":["num",4096],"sections":[{"name":"A","attrs":1,"parts":[[8,false]]},{"name":"B","attrs":1,"parts":[[1,false]]},{"name":"C","attrs":17,"parts":[[16,false]]}],"segments":[{"kind":"load"}],"events":[["seg",0],["sec",0],["sec",1],["sec",2],["endseg",0]]},"groups":[[{"kind":"prelude"}],[{"kind":"object","name":"a.o","sections":[{"slot":"must","part":0,"size":8,"data":"...},{"slot":"must","part":2,"size":16}]}]]}
0102030405060708"},{"slot":"must","part":1,"size":7,"data":"11121314151617" => well formed
01020304050607"},{"slot":"must","part":1,"size":7,"data":"11121314151617" => bad link: rule 14, input 1 0 0
0102030405060708"},{"slot":"must","part":1,"size":7,"data":"111213141516" => bad link: rule 14, input 1 0 1
# The first broken rule: in each row one rule more is kept.
@ ...
{"options":{"merge_group":0},"plan":{"page":3,"base":["sym",9],"sections":[{"parts":[[1,false]],"attrs":32}],"segments":[{"kind":"tls"},{"kind":"tls"}],"events":[["seg",0],["seg",1],["endseg",0],["endseg",1]],"got":9,"singletons":0},"groups":[[{"kind":"prelude"}],[{"kind":"prelude","symbols":[{"at":["dyn"]}],"sections":[{"slot":"must","part":1,"size":1,"data":"00ff","relocs":[[0,"Got",0,0,false]]}],"candidates":[[9,9,9,9]]}]]} => bad link: rule 1, options
{"options":{"merge_group":1},"plan":{"page":3,"base":["sym",9],"sections":[{"parts":[[1,false]],"attrs":32}],"segments":[{"kind":"tls"},{"kind":"tls"}],"events":[["seg",0],["seg",1],["endseg",0],["endseg",1]],"got":9,"singletons":0},"groups":[[{"kind":"prelude"}],[{"kind":"prelude","symbols":[{"at":["dyn"]}],"sections":[{"slot":"must","part":1,"size":1,"data":"00ff","relocs":[[0,"Got",0,0,false]]}],"candidates":[[9,9,9,9]]}]]} => bad link: rule 2, plan
{"options":{"merge_group":1},"plan":{"page":1,"base":["sym",9],"sections":[{"parts":[[1,false]],"attrs":32}],"segments":[{"kind":"tls"},{"kind":"tls"}],"events":[["seg",0],["seg",1],["endseg",0],["endseg",1]],"got":9,"singletons":0},"groups":[[{"kind":"prelude"}],[{"kind":"prelude","symbols":[{"at":["dyn"]}],"sections":[{"slot":"must","part":1,"size":1,"data":"00ff","relocs":[[0,"Got",0,0,false]]}],"candidates":[[9,9,9,9]]}]]} => bad link: rule 3, section 0
{"options":{"merge_group":1},"plan":{"page":1,"base":["sym",9],"sections":[{"parts":[[1,false]],"attrs":31}],"segments":[{"kind":"tls"},{"kind":"tls"}],"events":[["seg",0],["seg",1],["endseg",0],["endseg",1]],"got":9,"singletons":0},"groups":[[{"kind":"prelude"}],[{"kind":"prelude","symbols":[{"at":["dyn"]}],"sections":[{"slot":"must","part":1,"size":1,"data":"00ff","relocs":[[0,"Got",0,0,false]]}],"candidates":[[9,9,9,9]]}]]} => bad link: rule 4, part field 0
{"options":{"merge_group":1},"plan":{"page":1,"base":["sym",9],"sections":[{"parts":[[1,false]],"attrs":31}],"segments":[{"kind":"tls"},{"kind":"tls"}],"events":[["seg",0],["seg",1],["endseg",0],["endseg",1]],"singletons":0},"groups":[[{"kind":"prelude"}],[{"kind":"prelude","symbols":[{"at":["dyn"]}],"sections":[{"slot":"must","part":1,"size":1,"data":"00ff","relocs":[[0,"Got",0,0,false]]}],"candidates":[[9,9,9,9]]}]]} => bad link: rule 5, plan
{"options":{"merge_group":1},"plan":{"page":1,"base":["sym",9],"sections":[{"parts":[[1,false]],"attrs":31}],"segments":[{"kind":"tls"},{"kind":"tls"}],"events":[["seg",0],["seg",1],["endseg",0],["endseg",1]]},"groups":[[{"kind":"prelude"}],[{"kind":"prelude","symbols":[{"at":["dyn"]}],"sections":[{"slot":"must","part":1,"size":1,"data":"00ff","relocs":[[0,"Got",0,0,false]]}],"candidates":[[9,9,9,9]]}]]} => bad link: rule 6, segment 1
{"options":{"merge_group":1},"plan":{"page":1,"base":["sym",9],"sections":[{"parts":[[1,false]],"attrs":31}],"segments":[{"kind":"tls"},{"kind":"load"}],"events":[["seg",0],["seg",1],["endseg",0],["endseg",1]]},"groups":[[{"kind":"prelude"}],[{"kind":"prelude","symbols":[{"at":["dyn"]}],"sections":[{"slot":"must","part":1,"size":1,"data":"00ff","relocs":[[0,"Got",0,0,false]]}],"candidates":[[9,9,9,9]]}]]} => bad link: rule 7, event 4
{"options":{"merge_group":1},"plan":{"page":1,"base":["sym",9],"sections":[{"parts":[[1,false]],"attrs":31}],"segments":[{"kind":"tls"},{"kind":"load"}],"events":[["seg",0],["seg",1],["endseg",0],["endseg",1],["sec",0]]},"groups":[[{"kind":"prelude"}],[{"kind":"prelude","symbols":[{"at":["dyn"]}],"sections":[{"slot":"must","part":1,"size":1,"data":"00ff","relocs":[[0,"Got",0,0,false]]}],"candidates":[[9,9,9,9]]}]]} => bad link: rule 8, plan
{"options":{"merge_group":1},"plan":{"page":1,"base":["num",9],"sections":[{"parts":[[1,false]],"attrs":31}],"segments":[{"kind":"tls"},{"kind":"load"}],"events":[["seg",0],["seg",1],["endseg",0],["endseg",1],["sec",0]]},"groups":[[{"kind":"prelude"}],[{"kind":"prelude","symbols":[{"at":["dyn"]}],"sections":[{"slot":"must","part":1,"size":1,"data":"00ff","relocs":[[0,"Got",0,0,false]]}],"candidates":[[9,9,9,9]]}]]} => bad link: rule 9, file 1 0
{"options":{"merge_group":1},"plan":{"page":1,"base":["num",9],"sections":[{"parts":[[1,false]],"attrs":31}],"segments":[{"kind":"tls"},{"kind":"load"}],"events":[["seg",0],["seg",1],["endseg",0],["endseg",1],["sec",0]]},"groups":[[{"kind":"prelude"}],[{"kind":"object","symbols":[{"at":["dyn"]}],"sections":[{"slot":"must","part":1,"size":1,"data":"00ff","relocs":[[0,"Got",0,0,false]]}],"candidates":[[9,9,9,9]]}]]} => bad link: rule 10, symbol 0
{"options":{"merge_group":1},"plan":{"page":1,"base":["num",9],"sections":[{"parts":[[1,false]],"attrs":31}],"segments":[{"kind":"tls"},{"kind":"load"}],"events":[["seg",0],["seg",1],["endseg",0],["endseg",1],["sec",0]]},"groups":[[{"kind":"prelude"}],[{"kind":"object","symbols":[{"at":["undef"]}],"sections":[{"slot":"must","part":1,"size":1,"data":"00ff","relocs":[[0,"Got",0,0,false]]}],"candidates":[[9,9,9,9]]}]]} => bad link: rule 11, input 1 0 0
{"options":{"merge_group":1},"plan":{"page":1,"base":["num",9],"sections":[{"parts":[[1,false]],"attrs":31}],"segments":[{"kind":"tls"},{"kind":"load"}],"events":[["seg",0],["seg",1],["endseg",0],["endseg",1],["sec",0]]},"groups":[[{"kind":"prelude"}],[{"kind":"object","symbols":[{"at":["undef"]}],"sections":[{"slot":"must","part":0,"size":1,"data":"00ff","relocs":[[0,"Got",0,0,false]]}],"candidates":[[9,9,9,9]]}]]} => bad link: rule 12, input 1 0 0
{"options":{"merge_group":1},"plan":{"page":1,"base":["num",9],"sections":[{"parts":[[1,false]],"attrs":31}],"segments":[{"kind":"tls"},{"kind":"load"}],"events":[["seg",0],["seg",1],["endseg",0],["endseg",1],["sec",0]]},"groups":[[{"kind":"prelude"}],[{"kind":"object","symbols":[{"at":["undef"]}],"sections":[{"slot":"must","part":0,"size":1,"data":"00ff","relocs":[[0,"Relative",0,0,false]]}],"candidates":[[9,9,9,9]]}]]} => bad link: rule 13, file 1 0
{"options":{"merge_group":1},"plan":{"page":1,"base":["num",9],"sections":[{"parts":[[1,false]],"attrs":31}],"segments":[{"kind":"tls"},{"kind":"load"}],"events":[["seg",0],["seg",1],["endseg",0],["endseg",1],["sec",0]]},"groups":[[{"kind":"prelude"}],[{"kind":"object","symbols":[{"at":["undef"]}],"sections":[{"slot":"must","part":0,"size":1,"data":"00ff","relocs":[[0,"Relative",0,0,false]]}],"candidates":[[0,1,0,0]]}]]} => bad link: rule 14, input 1 0 0
{"options":{"merge_group":1},"plan":{"page":1,"base":["num",9],"sections":[{"parts":[[1,false]],"attrs":31}],"segments":[{"kind":"tls"},{"kind":"load"}],"events":[["seg",0],["seg",1],["endseg",0],["endseg",1],["sec",0]]},"groups":[[{"kind":"prelude"}],[{"kind":"object","symbols":[{"at":["undef"]}],"sections":[{"slot":"must","part":0,"size":1,"data":"ff","relocs":[[0,"Relative",0,0,false]]}],"candidates":[[0,1,0,0]]}]]} => well formed
# Lists as long as they may be, and longer; the first that is too long is told, before each rule.
{"plan":{"page":1,"segments":[«64 of {"kind":"load"}»],"regions":[«64 of {"origin":["dot"],"length":["dot"]}»]},"groups":[«65535 of []»]} => bad link: rule 7, event 0
{"plan":{"page":1,"segments":[«65 of {"kind":"load"}»],"regions":[«65 of {"origin":["dot"],"length":["dot"]}»]},"groups":[[]]} => too many segments: 65, limit 64
{"plan":{"page":1,"segments":[«64 of {"kind":"load"}»],"regions":[«66 of {"origin":["dot"],"length":["dot"]}»]},"groups":[[]]} => too many regions: 66, limit 64
{"plan":{"page":1,"segments":[«65 of {"kind":"load"}»],"regions":[]},"groups":[«65535 of []»]} => too many segments: 65, limit 64
{"plan":{"page":1,"segments":[«65 of {"kind":"load"}»],"regions":[«65 of {"origin":["dot"],"length":["dot"]}»]},"groups":[«65536 of []»]} => too many groups: 65536, limit 65535
"#;

#[test]
fn each_rule_is_kept_or_broken(rt: HostRuntime) -> Result<(), Fail> {
    expect_rows(&rt, rt.alloc(), Asked::Of(Shown::Check), RULES)
}

/// Adds what the check answers that looks at what files hold group by group.
fn add_check_by_groups<R: Threads + Sync>(
    rt: &R,
    line: &mut String,
    link: &Result<LinkInput, InputError>,
) -> Result<(), AllocError> {
    match link {
        Ok(link) => add_outcome(line, &check_link_by_groups(rt, link)),
        Err(error) => write!(line, "no link: {error}"),
    }
}

/// What it answers to a row.
fn answer_by_groups<R: Threads + Sync>(
    rt: &R,
    alloc: Global,
    row: Row,
) -> Result<String, AllocError> {
    let text = row.text(alloc)?;
    let link = read_link(alloc, text.as_bytes());
    let mut line = String::new(alloc);
    add_check_by_groups(rt, &mut line, &link)?;
    Ok(line)
}

#[test]
fn each_rule_is_kept_or_broken_by_groups(rt: HostRuntime) -> Result<(), Fail> {
    for row in rows_of(rt.alloc(), RULES)? {
        let line = answer_by_groups(&rt, rt.alloc(), row)?;
        expect_answer(&rt, row.front, line.as_str(), row.want);
    }
    Ok(())
}

/// How many parts the one section of a link has and how many events its plan.
const CROWDED: &str = "
1048576 262144 => bad link: rule 3, section 0
1048576 262145 => too many events: 262145, limit 262144
1048577 262145 => too many parts: 1048577, limit 1048576
";

/// An output section of so many parts.
fn crowded_section(alloc: Global, parts: usize) -> Result<PlanSection, AllocError> {
    let part = PlanPart {
        alignment: 1,
        packed: false,
    };
    Ok(PlanSection {
        name: Text::new(alloc),
        attrs: 0,
        align: 1,
        parts: List::from_vec(vec![in alloc; part; parts]?),
        primary: None,
        emit: Emit::Auto,
        region: None,
        at: None,
        top: false,
        counters: false,
    })
}

/// So many events that place the first section.
fn crowded_events(alloc: Global, count: usize) -> Result<List<OrderEvent>, AllocError> {
    let mut events = Vec::new(alloc);
    for _ in 0..count {
        events.push(OrderEvent::Section(OutputSectionId::from_u32(0)))?;
    }
    Ok(List::from_vec(events))
}

/// The sections of a plan that has one, of so many parts.
fn crowded_sections(alloc: Global, parts: usize) -> Result<PlanSections, AllocError> {
    let mut sections = Vec::new(alloc);
    sections.push(crowded_section(alloc, parts)?)?;
    PlanSections::new(alloc, List::from_vec(sections))
}

/// A link with these sections and events.
fn with_plan(mut link: LinkInput, sections: PlanSections, events: List<OrderEvent>) -> LinkInput {
    link.plan.sections = sections;
    link.plan.events = events;
    link
}

/// A link with as many parts and events as the two words of a line say.
pub fn crowded_link(alloc: Global, line: &str) -> Result<LinkInput, InputError> {
    let (parts, events) = line.split_once(' ').unwrap_or((line, ""));
    let sections = crowded_sections(alloc, parts.parse::<usize>().unwrap_or(0))?;
    let events = crowded_events(alloc, events.parse::<usize>().unwrap_or(0))?;
    match read_link(alloc, br#"{"plan":{"page":1}}"#) {
        Ok(link) => Ok(with_plan(link, sections, events)),
        Err(error) => Err(error),
    }
}

#[test]
fn parts_and_events_have_limits(rt: HostRuntime) -> Result<(), Fail> {
    expect_rows(&rt, rt.alloc(), Asked::OfCrowded(Shown::Check), CROWDED)
}

/// A plan of the parts 0 and 1, of which part 1 is a table.
const TWO_PARTS: &[u8] =
    br#"{"plan":{"page":1,"sections":[{"parts":[[1,false]]},{"parts":[[1,false]]}],"events":[["sec",0],["sec",1]],"got":1}}"#;

/// The files that the words of a line stand for, under that plan.
pub fn hand_made_link(alloc: Global, line: &str) -> Result<LinkInput, InputError> {
    let groups = groups_of(alloc, line)?;
    match read_link(alloc, TWO_PARTS) {
        Ok(link) => Ok(with_groups(link, groups)),
        Err(error) => Err(error),
    }
}

/// Sections of a prelude, a dynamic file and a script.
const HAND_MADE: &str = "
p00 d01 s10 => bad link: rule 11, input 1 0 1
p00 d00 s11 => bad link: rule 11, input 2 0 0
p01 d01 s00 => bad link: rule 11, input 0 0 1
p00 d00 s00 => well formed
";

#[test]
fn sections_of_files_that_are_no_objects_are_looked_at(rt: HostRuntime) -> Result<(), Fail> {
    expect_rows(&rt, rt.alloc(), Asked::OfHandMade(Shown::Check), HAND_MADE)
}
