//! Each field of each object: values of a wrong shape, values at both ends of its range, and the order of the fields.

use crate::rows::{Asked, expect_rows};
use std::test::Fail;

/// Of each object first all its keys from each one on, in the order of the format, with values of a wrong shape: the first is
/// at fault. Then each key that has no shape of its own, with right and wrong values.
const FIELDS: &str = r#"
@ {"plan":{"page":1}...}
,"options":null,"plan":null,"groups":null => at /options
,"plan":null,"groups":null => at /plan
,"groups":null => at /groups
@ {"plan":{"page":1},"groups":...}
[] => read
null | 0 | "" | true | {} => at /groups
@ {"plan":{"page":1},"options":{"x":0...}}
,"output":null,"gc":null,"error_objects":null,"error_dynamics":null,"export_all":null,"export_list":null,"restrictive":null,"strip_all":null,"discard":null,"strip_names":null,"identity":null,"stack":null,"entry":null,"relax":null,"branch_range":null,"bucket_limit":null,"merge_group":null => at /options/output
,"gc":null,"error_objects":null,"error_dynamics":null,"export_all":null,"export_list":null,"restrictive":null,"strip_all":null,"discard":null,"strip_names":null,"identity":null,"stack":null,"entry":null,"relax":null,"branch_range":null,"bucket_limit":null,"merge_group":null => at /options/gc
,"error_objects":null,"error_dynamics":null,"export_all":null,"export_list":null,"restrictive":null,"strip_all":null,"discard":null,"strip_names":null,"identity":null,"stack":null,"entry":null,"relax":null,"branch_range":null,"bucket_limit":null,"merge_group":null => at /options/error_objects
,"error_dynamics":null,"export_all":null,"export_list":null,"restrictive":null,"strip_all":null,"discard":null,"strip_names":null,"identity":null,"stack":null,"entry":null,"relax":null,"branch_range":null,"bucket_limit":null,"merge_group":null => at /options/error_dynamics
,"export_all":null,"export_list":null,"restrictive":null,"strip_all":null,"discard":null,"strip_names":null,"identity":null,"stack":null,"entry":null,"relax":null,"branch_range":null,"bucket_limit":null,"merge_group":null => at /options/export_all
,"export_list":null,"restrictive":null,"strip_all":null,"discard":null,"strip_names":null,"identity":null,"stack":null,"entry":null,"relax":null,"branch_range":null,"bucket_limit":null,"merge_group":null => at /options/export_list
,"restrictive":null,"strip_all":null,"discard":null,"strip_names":null,"identity":null,"stack":null,"entry":null,"relax":null,"branch_range":null,"bucket_limit":null,"merge_group":null => at /options/restrictive
,"strip_all":null,"discard":null,"strip_names":null,"identity":null,"stack":null,"entry":null,"relax":null,"branch_range":null,"bucket_limit":null,"merge_group":null => at /options/strip_all
,"discard":null,"strip_names":null,"identity":null,"stack":null,"entry":null,"relax":null,"branch_range":null,"bucket_limit":null,"merge_group":null => at /options/discard
,"strip_names":null,"identity":null,"stack":null,"entry":null,"relax":null,"branch_range":null,"bucket_limit":null,"merge_group":null => at /options/strip_names
,"identity":null,"stack":null,"entry":null,"relax":null,"branch_range":null,"bucket_limit":null,"merge_group":null => at /options/identity
,"stack":null,"entry":null,"relax":null,"branch_range":null,"bucket_limit":null,"merge_group":null => at /options/stack
,"entry":null,"relax":null,"branch_range":null,"bucket_limit":null,"merge_group":null => at /options/entry
,"relax":null,"branch_range":null,"bucket_limit":null,"merge_group":null => at /options/relax
,"branch_range":null,"bucket_limit":null,"merge_group":null => at /options/branch_range
,"bucket_limit":null,"merge_group":null => at /options/bucket_limit
,"merge_group":null => at /options/merge_group
@ {"plan":{"page":1},"options":{"x":0,"gc":...}}
true | false => read
null | 0 | 1 | "true" | [] | {} => at /options/gc
@ {"plan":{"page":1},"options":{"x":0,"error_objects":...}}
true | false => read
null | 0 | 1 | "true" | [] | {} => at /options/error_objects
@ {"plan":{"page":1},"options":{"x":0,"error_dynamics":...}}
true | false => read
null | 0 | 1 | "true" | [] | {} => at /options/error_dynamics
@ {"plan":{"page":1},"options":{"x":0,"export_all":...}}
true | false => read
null | 0 | 1 | "true" | [] | {} => at /options/export_all
@ {"plan":{"page":1},"options":{"x":0,"restrictive":...}}
true | false => read
null | 0 | 1 | "true" | [] | {} => at /options/restrictive
@ {"plan":{"page":1},"options":{"x":0,"strip_all":...}}
true | false => read
null | 0 | 1 | "true" | [] | {} => at /options/strip_all
@ {"plan":{"page":1},"options":{"x":0,"relax":...}}
true | false => read
null | 0 | 1 | "true" | [] | {} => at /options/relax
@ {"plan":{"page":1},"options":{"x":0,"stack":...}}
0 | 18446744073709551615 => read
null | -1 | -0 | 1.0 | 1e2 | 18446744073709551616 | "1" | true | [] | {} => at /options/stack
@ {"plan":{"page":1},"options":{"x":0,"branch_range":...}}
0 | 18446744073709551615 => read
null | -1 | -0 | 1.0 | 1e2 | 18446744073709551616 | "1" | true | [] | {} => at /options/branch_range
@ {"plan":{"page":1},"options":{"x":0,"bucket_limit":...}}
0 | 18446744073709551615 => read
null | -1 | -0 | 1.0 | 1e2 | 18446744073709551616 | "1" | true | [] | {} => at /options/bucket_limit
@ {"plan":{"page":1},"options":{"x":0,"merge_group":...}}
0 | 18446744073709551615 => read
null | -1 | -0 | 1.0 | 1e2 | 18446744073709551616 | "1" | true | [] | {} => at /options/merge_group
@ {"plan":{"page":1},"options":{"x":0,"entry":...}}
0 | 4294967295 => read
null | -1 | -0 | 1.0 | 1e2 | 4294967296 | 18446744073709551616 | "1" | true | [] | {} => at /options/entry
@ {"plan":{"page":1},"options":{"x":0,"identity":...}}
"" | "x" | "\u00e9" => read
null | 0 | true | [] | {} => at /options/identity
@ {"plan":{"page":1},"options":{"x":0,"export_list":...}}
[] => read
null | 0 | "" | true | {} => at /options/export_list
@ {"plan":{"page":1},"options":{"x":0,"strip_names":...}}
[] => read
null | 0 | "" | true | {} => at /options/strip_names
@ {"plan":{"page":1...}}
,"page":null,"base":null,"custom_base":null,"custom_phdrs":null,"phdrs_headers":null,"sections":null,"segments":null,"regions":null,"events":null,"got":null,"plt":null,"symtab_local":null,"symtab_global":null,"strtab":null,"dynsym":null,"dynstr":null,"file_header":null,"program_headers":null,"section_headers":null,"shstrtab":null,"comment":null,"primary":null,"singletons":null => at /plan/page
,"base":null,"custom_base":null,"custom_phdrs":null,"phdrs_headers":null,"sections":null,"segments":null,"regions":null,"events":null,"got":null,"plt":null,"symtab_local":null,"symtab_global":null,"strtab":null,"dynsym":null,"dynstr":null,"file_header":null,"program_headers":null,"section_headers":null,"shstrtab":null,"comment":null,"primary":null,"singletons":null => at /plan/base
,"custom_base":null,"custom_phdrs":null,"phdrs_headers":null,"sections":null,"segments":null,"regions":null,"events":null,"got":null,"plt":null,"symtab_local":null,"symtab_global":null,"strtab":null,"dynsym":null,"dynstr":null,"file_header":null,"program_headers":null,"section_headers":null,"shstrtab":null,"comment":null,"primary":null,"singletons":null => at /plan/custom_base
,"custom_phdrs":null,"phdrs_headers":null,"sections":null,"segments":null,"regions":null,"events":null,"got":null,"plt":null,"symtab_local":null,"symtab_global":null,"strtab":null,"dynsym":null,"dynstr":null,"file_header":null,"program_headers":null,"section_headers":null,"shstrtab":null,"comment":null,"primary":null,"singletons":null => at /plan/custom_phdrs
,"phdrs_headers":null,"sections":null,"segments":null,"regions":null,"events":null,"got":null,"plt":null,"symtab_local":null,"symtab_global":null,"strtab":null,"dynsym":null,"dynstr":null,"file_header":null,"program_headers":null,"section_headers":null,"shstrtab":null,"comment":null,"primary":null,"singletons":null => at /plan/phdrs_headers
,"sections":null,"segments":null,"regions":null,"events":null,"got":null,"plt":null,"symtab_local":null,"symtab_global":null,"strtab":null,"dynsym":null,"dynstr":null,"file_header":null,"program_headers":null,"section_headers":null,"shstrtab":null,"comment":null,"primary":null,"singletons":null => at /plan/sections
,"segments":null,"regions":null,"events":null,"got":null,"plt":null,"symtab_local":null,"symtab_global":null,"strtab":null,"dynsym":null,"dynstr":null,"file_header":null,"program_headers":null,"section_headers":null,"shstrtab":null,"comment":null,"primary":null,"singletons":null => at /plan/segments
,"regions":null,"events":null,"got":null,"plt":null,"symtab_local":null,"symtab_global":null,"strtab":null,"dynsym":null,"dynstr":null,"file_header":null,"program_headers":null,"section_headers":null,"shstrtab":null,"comment":null,"primary":null,"singletons":null => at /plan/regions
,"events":null,"got":null,"plt":null,"symtab_local":null,"symtab_global":null,"strtab":null,"dynsym":null,"dynstr":null,"file_header":null,"program_headers":null,"section_headers":null,"shstrtab":null,"comment":null,"primary":null,"singletons":null => at /plan/events
,"got":null,"plt":null,"symtab_local":null,"symtab_global":null,"strtab":null,"dynsym":null,"dynstr":null,"file_header":null,"program_headers":null,"section_headers":null,"shstrtab":null,"comment":null,"primary":null,"singletons":null => at /plan/got
,"plt":null,"symtab_local":null,"symtab_global":null,"strtab":null,"dynsym":null,"dynstr":null,"file_header":null,"program_headers":null,"section_headers":null,"shstrtab":null,"comment":null,"primary":null,"singletons":null => at /plan/plt
,"symtab_local":null,"symtab_global":null,"strtab":null,"dynsym":null,"dynstr":null,"file_header":null,"program_headers":null,"section_headers":null,"shstrtab":null,"comment":null,"primary":null,"singletons":null => at /plan/symtab_local
,"symtab_global":null,"strtab":null,"dynsym":null,"dynstr":null,"file_header":null,"program_headers":null,"section_headers":null,"shstrtab":null,"comment":null,"primary":null,"singletons":null => at /plan/symtab_global
,"strtab":null,"dynsym":null,"dynstr":null,"file_header":null,"program_headers":null,"section_headers":null,"shstrtab":null,"comment":null,"primary":null,"singletons":null => at /plan/strtab
,"dynsym":null,"dynstr":null,"file_header":null,"program_headers":null,"section_headers":null,"shstrtab":null,"comment":null,"primary":null,"singletons":null => at /plan/dynsym
,"dynstr":null,"file_header":null,"program_headers":null,"section_headers":null,"shstrtab":null,"comment":null,"primary":null,"singletons":null => at /plan/dynstr
,"file_header":null,"program_headers":null,"section_headers":null,"shstrtab":null,"comment":null,"primary":null,"singletons":null => at /plan/file_header
,"program_headers":null,"section_headers":null,"shstrtab":null,"comment":null,"primary":null,"singletons":null => at /plan/program_headers
,"section_headers":null,"shstrtab":null,"comment":null,"primary":null,"singletons":null => at /plan/section_headers
,"shstrtab":null,"comment":null,"primary":null,"singletons":null => at /plan/shstrtab
,"comment":null,"primary":null,"singletons":null => at /plan/comment
,"primary":null,"singletons":null => at /plan/primary
,"singletons":null => at /plan/singletons
@ {"plan":{"page":1,"custom_base":...}}
true | false => read
null | 0 | 1 | "true" | [] | {} => at /plan/custom_base
@ {"plan":{"page":1,"custom_phdrs":...}}
true | false => read
null | 0 | 1 | "true" | [] | {} => at /plan/custom_phdrs
@ {"plan":{"page":1,"phdrs_headers":...}}
true | false => read
null | 0 | 1 | "true" | [] | {} => at /plan/phdrs_headers
@ {"plan":{"page":1,"page":...}}
0 | 18446744073709551615 => read
null | -1 | -0 | 1.0 | 1e2 | 18446744073709551616 | "1" | true | [] | {} => at /plan/page
@ {"plan":{"page":1,"got":...}}
0 | 4294967295 => read
null | -1 | -0 | 1.0 | 1e2 | 4294967296 | 18446744073709551616 | "1" | true | [] | {} => at /plan/got
@ {"plan":{"page":1,"plt":...}}
0 | 4294967295 => read
null | -1 | -0 | 1.0 | 1e2 | 4294967296 | 18446744073709551616 | "1" | true | [] | {} => at /plan/plt
@ {"plan":{"page":1,"symtab_local":...}}
0 | 4294967295 => read
null | -1 | -0 | 1.0 | 1e2 | 4294967296 | 18446744073709551616 | "1" | true | [] | {} => at /plan/symtab_local
@ {"plan":{"page":1,"symtab_global":...}}
0 | 4294967295 => read
null | -1 | -0 | 1.0 | 1e2 | 4294967296 | 18446744073709551616 | "1" | true | [] | {} => at /plan/symtab_global
@ {"plan":{"page":1,"strtab":...}}
0 | 4294967295 => read
null | -1 | -0 | 1.0 | 1e2 | 4294967296 | 18446744073709551616 | "1" | true | [] | {} => at /plan/strtab
@ {"plan":{"page":1,"dynsym":...}}
0 | 4294967295 => read
null | -1 | -0 | 1.0 | 1e2 | 4294967296 | 18446744073709551616 | "1" | true | [] | {} => at /plan/dynsym
@ {"plan":{"page":1,"dynstr":...}}
0 | 4294967295 => read
null | -1 | -0 | 1.0 | 1e2 | 4294967296 | 18446744073709551616 | "1" | true | [] | {} => at /plan/dynstr
@ {"plan":{"page":1,"file_header":...}}
0 | 4294967295 => read
null | -1 | -0 | 1.0 | 1e2 | 4294967296 | 18446744073709551616 | "1" | true | [] | {} => at /plan/file_header
@ {"plan":{"page":1,"program_headers":...}}
0 | 4294967295 => read
null | -1 | -0 | 1.0 | 1e2 | 4294967296 | 18446744073709551616 | "1" | true | [] | {} => at /plan/program_headers
@ {"plan":{"page":1,"section_headers":...}}
0 | 4294967295 => read
null | -1 | -0 | 1.0 | 1e2 | 4294967296 | 18446744073709551616 | "1" | true | [] | {} => at /plan/section_headers
@ {"plan":{"page":1,"shstrtab":...}}
0 | 4294967295 => read
null | -1 | -0 | 1.0 | 1e2 | 4294967296 | 18446744073709551616 | "1" | true | [] | {} => at /plan/shstrtab
@ {"plan":{"page":1,"comment":...}}
0 | 4294967295 => read
null | -1 | -0 | 1.0 | 1e2 | 4294967296 | 18446744073709551616 | "1" | true | [] | {} => at /plan/comment
@ {"plan":{"page":1,"primary":...}}
0 | 4294967295 => read
null | -1 | -0 | 1.0 | 1e2 | 4294967296 | 18446744073709551616 | "1" | true | [] | {} => at /plan/primary
@ {"plan":{"page":1,"singletons":...}}
0 | 4294967295 => read
null | -1 | -0 | 1.0 | 1e2 | 4294967296 | 18446744073709551616 | "1" | true | [] | {} => at /plan/singletons
@ {"plan":{"page":1,"sections":...}}
[] => read
null | 0 | "" | true | {} => at /plan/sections
@ {"plan":{"page":1,"segments":...}}
[] => read
null | 0 | "" | true | {} => at /plan/segments
@ {"plan":{"page":1,"regions":...}}
[] => read
null | 0 | "" | true | {} => at /plan/regions
@ {"plan":{"page":1,"events":...}}
[] => read
null | 0 | "" | true | {} => at /plan/events
@ {"plan":{"page":1,"sections":[{"x":0...}]}}
,"name":null,"attrs":null,"align":null,"parts":null,"primary":null,"emit":null,"region":null,"at":null,"top":null,"counters":null => at /plan/sections/0/name
,"attrs":null,"align":null,"parts":null,"primary":null,"emit":null,"region":null,"at":null,"top":null,"counters":null => at /plan/sections/0/attrs
,"align":null,"parts":null,"primary":null,"emit":null,"region":null,"at":null,"top":null,"counters":null => at /plan/sections/0/align
,"parts":null,"primary":null,"emit":null,"region":null,"at":null,"top":null,"counters":null => at /plan/sections/0/parts
,"primary":null,"emit":null,"region":null,"at":null,"top":null,"counters":null => at /plan/sections/0/primary
,"emit":null,"region":null,"at":null,"top":null,"counters":null => at /plan/sections/0/emit
,"region":null,"at":null,"top":null,"counters":null => at /plan/sections/0/region
,"at":null,"top":null,"counters":null => at /plan/sections/0/at
,"top":null,"counters":null => at /plan/sections/0/top
,"counters":null => at /plan/sections/0/counters
@ {"plan":{"page":1,"sections":[{"x":0,"top":...}]}}
true | false => read
null | 0 | 1 | "true" | [] | {} => at /plan/sections/0/top
@ {"plan":{"page":1,"sections":[{"x":0,"counters":...}]}}
true | false => read
null | 0 | 1 | "true" | [] | {} => at /plan/sections/0/counters
@ {"plan":{"page":1,"sections":[{"x":0,"align":...}]}}
0 | 18446744073709551615 => read
null | -1 | -0 | 1.0 | 1e2 | 18446744073709551616 | "1" | true | [] | {} => at /plan/sections/0/align
@ {"plan":{"page":1,"sections":[{"x":0,"attrs":...}]}}
0 | 4294967295 => read
null | -1 | -0 | 1.0 | 1e2 | 4294967296 | 18446744073709551616 | "1" | true | [] | {} => at /plan/sections/0/attrs
@ {"plan":{"page":1,"sections":[{"x":0,"primary":...}]}}
0 | 4294967295 => read
null | -1 | -0 | 1.0 | 1e2 | 4294967296 | 18446744073709551616 | "1" | true | [] | {} => at /plan/sections/0/primary
@ {"plan":{"page":1,"sections":[{"x":0,"name":...}]}}
"" | "x" | "\u00e9" => read
null | 0 | true | [] | {} => at /plan/sections/0/name
@ {"plan":{"page":1,"sections":[{"x":0,"region":...}]}}
"" | "x" | "\u00e9" => read
null | 0 | true | [] | {} => at /plan/sections/0/region
@ {"plan":{"page":1,"sections":[{"x":0,"parts":...}]}}
[] => read
null | 0 | "" | true | {} => at /plan/sections/0/parts
@ {"plan":{"page":1,"segments":[{"kind":"load"...}]}}
,"kind":null,"always":null => at /plan/segments/0/kind
,"always":null => at /plan/segments/0/always
@ {"plan":{"page":1,"segments":[{"kind":"load","always":...}]}}
true | false => read
null | 0 | 1 | "true" | [] | {} => at /plan/segments/0/always
@ {"plan":{"page":1,"regions":[{"origin":["dot"],"length":["dot"]...}]}}
,"name":null,"origin":null,"length":null => at /plan/regions/0/name
,"origin":null,"length":null => at /plan/regions/0/origin
,"length":null => at /plan/regions/0/length
@ {"plan":{"page":1,"regions":[{"origin":["dot"],"length":["dot"],"name":...}]}}
"" | "x" | "\u00e9" => read
null | 0 | true | [] | {} => at /plan/regions/0/name
@ {"plan":{"page":1},"groups":[[{"kind":"object"...}]]}
,"kind":null,"name":null,"symbols":null,"sections":null,"archive":null,"export":null,"check":null,"candidates":null => at /groups/0/0/kind
,"name":null,"symbols":null,"sections":null,"archive":null,"export":null,"check":null,"candidates":null => at /groups/0/0/name
,"symbols":null,"sections":null,"archive":null,"export":null,"check":null,"candidates":null => at /groups/0/0/symbols
,"sections":null,"archive":null,"export":null,"check":null,"candidates":null => at /groups/0/0/sections
,"archive":null,"export":null,"check":null,"candidates":null => at /groups/0/0/archive
,"export":null,"check":null,"candidates":null => at /groups/0/0/export
,"check":null,"candidates":null => at /groups/0/0/check
,"candidates":null => at /groups/0/0/candidates
@ {"plan":{"page":1},"groups":[[{"kind":"object","archive":...}]]}
true | false => read
null | 0 | 1 | "true" | [] | {} => at /groups/0/0/archive
@ {"plan":{"page":1},"groups":[[{"kind":"object","export":...}]]}
true | false => read
null | 0 | 1 | "true" | [] | {} => at /groups/0/0/export
@ {"plan":{"page":1},"groups":[[{"kind":"object","check":...}]]}
true | false => read
null | 0 | 1 | "true" | [] | {} => at /groups/0/0/check
@ {"plan":{"page":1},"groups":[[{"kind":"object","name":...}]]}
"" | "x" | "\u00e9" => read
null | 0 | true | [] | {} => at /groups/0/0/name
@ {"plan":{"page":1},"groups":[[{"kind":"object","symbols":...}]]}
[] => read
null | 0 | "" | true | {} => at /groups/0/0/symbols
@ {"plan":{"page":1},"groups":[[{"kind":"object","sections":...}]]}
[] => read
null | 0 | "" | true | {} => at /groups/0/0/sections
@ {"plan":{"page":1},"groups":[[{"kind":"object","candidates":...}]]}
[] => read
null | 0 | "" | true | {} => at /groups/0/0/candidates
@ {"plan":{"page":1},"groups":[[{"kind":"object","symbols":[{"at":["undef"]...}]}]]}
,"name":null,"at":null,"def":null,"flags":null,"local":null,"weak":null,"hidden":null => at /groups/0/0/symbols/0/name
,"at":null,"def":null,"flags":null,"local":null,"weak":null,"hidden":null => at /groups/0/0/symbols/0/at
,"def":null,"flags":null,"local":null,"weak":null,"hidden":null => at /groups/0/0/symbols/0/def
,"flags":null,"local":null,"weak":null,"hidden":null => at /groups/0/0/symbols/0/flags
,"local":null,"weak":null,"hidden":null => at /groups/0/0/symbols/0/local
,"weak":null,"hidden":null => at /groups/0/0/symbols/0/weak
,"hidden":null => at /groups/0/0/symbols/0/hidden
@ {"plan":{"page":1},"groups":[[{"kind":"object","symbols":[{"at":["undef"],"local":...}]}]]}
true | false => read
null | 0 | 1 | "true" | [] | {} => at /groups/0/0/symbols/0/local
@ {"plan":{"page":1},"groups":[[{"kind":"object","symbols":[{"at":["undef"],"weak":...}]}]]}
true | false => read
null | 0 | 1 | "true" | [] | {} => at /groups/0/0/symbols/0/weak
@ {"plan":{"page":1},"groups":[[{"kind":"object","symbols":[{"at":["undef"],"hidden":...}]}]]}
true | false => read
null | 0 | 1 | "true" | [] | {} => at /groups/0/0/symbols/0/hidden
@ {"plan":{"page":1},"groups":[[{"kind":"object","symbols":[{"at":["undef"],"def":...}]}]]}
0 | 4294967295 => read
null | -1 | -0 | 1.0 | 1e2 | 4294967296 | 18446744073709551616 | "1" | true | [] | {} => at /groups/0/0/symbols/0/def
@ {"plan":{"page":1},"groups":[[{"kind":"object","symbols":[{"at":["undef"],"flags":...}]}]]}
0 | 4294967295 => read
null | -1 | -0 | 1.0 | 1e2 | 4294967296 | 18446744073709551616 | "1" | true | [] | {} => at /groups/0/0/symbols/0/flags
@ {"plan":{"page":1},"groups":[[{"kind":"object","symbols":[{"at":["undef"],"name":...}]}]]}
"" | "x" | "\u00e9" => read
null | 0 | true | [] | {} => at /groups/0/0/symbols/0/name
@ {"plan":{"page":1},"groups":[[{"kind":"object","sections":[{"slot":"merge"...}]}]]}
,"name":null,"slot":null,"part":null,"size":null,"data":null,"strings":null,"sorted":null,"attrs":null,"group":null,"relocs":null,"relax":null => at /groups/0/0/sections/0/name
,"slot":null,"part":null,"size":null,"data":null,"strings":null,"sorted":null,"attrs":null,"group":null,"relocs":null,"relax":null => at /groups/0/0/sections/0/slot
,"part":null,"size":null,"data":null,"strings":null,"sorted":null,"attrs":null,"group":null,"relocs":null,"relax":null => at /groups/0/0/sections/0/part
,"size":null,"data":null,"strings":null,"sorted":null,"attrs":null,"group":null,"relocs":null,"relax":null => at /groups/0/0/sections/0/size
,"data":null,"strings":null,"sorted":null,"attrs":null,"group":null,"relocs":null,"relax":null => at /groups/0/0/sections/0/data
,"strings":null,"sorted":null,"attrs":null,"group":null,"relocs":null,"relax":null => at /groups/0/0/sections/0/strings
,"sorted":null,"attrs":null,"group":null,"relocs":null,"relax":null => at /groups/0/0/sections/0/sorted
,"attrs":null,"group":null,"relocs":null,"relax":null => at /groups/0/0/sections/0/attrs
,"group":null,"relocs":null,"relax":null => at /groups/0/0/sections/0/group
,"relocs":null,"relax":null => at /groups/0/0/sections/0/relocs
,"relax":null => at /groups/0/0/sections/0/relax
@ {"plan":{"page":1},"groups":[[{"kind":"object","sections":[{"slot":"discard","data":...}]}]]}
"" | "00" | "0f9A" | "\u0030f" => read
null | 0 | true | [] | ["00"] | {} | "0" | "000" | "0g" | "0x" | " 00" | "\u00e9" => at /groups/0/0/sections/0/data
@ {"plan":{"page":1},"groups":[[{"kind":"object","sections":[{"slot":"unloaded","data":...}]}]]}
"" | "00" | "0f9A" | "\u0030f" => read
null | 0 | true | [] | ["00"] | {} | "0" | "000" | "0g" | "0x" | " 00" | "\u00e9" => at /groups/0/0/sections/0/data
@ {"plan":{"page":1},"groups":[[{"kind":"object","sections":[{"slot":"must","data":...}]}]]}
"" | "00" | "0f9A" | "\u0030f" => read
null | 0 | true | [] | ["00"] | {} | "0" | "000" | "0g" | "0x" | " 00" | "\u00e9" => at /groups/0/0/sections/0/data
@ {"plan":{"page":1},"groups":[[{"kind":"object","sections":[{"slot":"debug","data":...}]}]]}
"" | "00" | "0f9A" | "\u0030f" => read
null | 0 | true | [] | ["00"] | {} | "0" | "000" | "0g" | "0x" | " 00" | "\u00e9" => at /groups/0/0/sections/0/data
@ {"plan":{"page":1},"groups":[[{"kind":"object","sections":[{"slot":"mustdebug","data":...}]}]]}
"" | "00" | "0f9A" | "\u0030f" => read
null | 0 | true | [] | ["00"] | {} | "0" | "000" | "0g" | "0x" | " 00" | "\u00e9" => at /groups/0/0/sections/0/data
@ {"plan":{"page":1},"groups":[[{"kind":"object","sections":[{"slot":"merge","data":...}]}]]}
"" | "00" | "0f9A" | "\u0030f" => read
null | 0 | true | [] | ["00"] | {} | "0" | "000" | "0g" | "0x" | " 00" | "\u00e9" => at /groups/0/0/sections/0/data
@ {"plan":{"page":1},"groups":[[{"kind":"object","sections":[{"slot":"merge","strings":...}]}]]}
true | false => read
null | 0 | 1 | "true" | [] | {} => at /groups/0/0/sections/0/strings
@ {"plan":{"page":1},"groups":[[{"kind":"object","sections":[{"slot":"merge","sorted":...}]}]]}
true | false => read
null | 0 | 1 | "true" | [] | {} => at /groups/0/0/sections/0/sorted
@ {"plan":{"page":1},"groups":[[{"kind":"object","sections":[{"slot":"merge","size":...}]}]]}
0 | 18446744073709551615 => read
null | -1 | -0 | 1.0 | 1e2 | 18446744073709551616 | "1" | true | [] | {} => at /groups/0/0/sections/0/size
@ {"plan":{"page":1},"groups":[[{"kind":"object","sections":[{"slot":"merge","part":...}]}]]}
0 | 4294967295 => read
null | -1 | -0 | 1.0 | 1e2 | 4294967296 | 18446744073709551616 | "1" | true | [] | {} => at /groups/0/0/sections/0/part
@ {"plan":{"page":1},"groups":[[{"kind":"object","sections":[{"slot":"merge","attrs":...}]}]]}
0 | 4294967295 => read
null | -1 | -0 | 1.0 | 1e2 | 4294967296 | 18446744073709551616 | "1" | true | [] | {} => at /groups/0/0/sections/0/attrs
@ {"plan":{"page":1},"groups":[[{"kind":"object","sections":[{"slot":"merge","group":...}]}]]}
0 | 4294967295 => read
null | -1 | -0 | 1.0 | 1e2 | 4294967296 | 18446744073709551616 | "1" | true | [] | {} => at /groups/0/0/sections/0/group
@ {"plan":{"page":1},"groups":[[{"kind":"object","sections":[{"slot":"merge","name":...}]}]]}
"" | "x" | "\u00e9" => read
null | 0 | true | [] | {} => at /groups/0/0/sections/0/name
@ {"plan":{"page":1},"groups":[[{"kind":"object","sections":[{"slot":"merge","relocs":...}]}]]}
[] => read
null | 0 | "" | true | {} => at /groups/0/0/sections/0/relocs
@ {"plan":{"page":1},"groups":[[{"kind":"object","sections":[{"slot":"merge","relax":...}]}]]}
[] => read
null | 0 | "" | true | {} => at /groups/0/0/sections/0/relax
"#;

#[test]
fn fields_have_shapes_and_an_order(rt: HostRuntime) -> Result<(), Fail> {
    expect_rows(&rt, rt.alloc(), Asked::Outcome, FIELDS)
}
