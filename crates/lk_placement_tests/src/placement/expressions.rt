//! What expressions are worth: by numbers alone, while sections are placed, and when all is placed; and what is evaluated
//! before the first event.

ghost use Rattle.std.specs.Prelude.{◌≤◌, ◌<◌, ◌^◌, All, length};
ghost use Rattle.lk_link.specs.WellFormed.{IsWellFormed};
ghost use Rattle.lk_place.specs.Shallow.{AreShallow};

use crate::placement::OfPlacement;
use crate::rows::{Asked, expect_rows};
use lk_check::check_link;
use lk_link::{Alignment, LinkInput, List, PartId, SymbolId};
use lk_place::laws::expressions_are_shallow;
use lk_place::{
    Constant, EarlySurroundings, GivenRecords, GivenValues, LateSurroundings, OutputRecordLayout,
    SymbolPosition, SymbolPositions, constant_redirects, evaluate_const, evaluate_early_expression,
    evaluate_expression, evaluate_regions, first_memory, is_plain,
};
use lk_test_rows::add;
use std::alloc::{AllocError, Global};
use std::test::Fail;

/// Expressions of numbers, and what they are worth everywhere.
const NUMBERS: &str = r#"
@ {"plan":{"page":16,"base":...},"groups":[[{"kind":"prelude"}]]}
["num",0] | ["sub",["num",7],["num",7]] | ["mul",["num",0],["num",18446744073709551615]] | ["div",["num",1],["num",2]] | ["align",["num",0],["num",4]] | ["min",["num",0],["num",1]] => const Ok(0) early Ok(0) late Ok(0) nowhere Ok(0)
["sub",["num",7],["num",2]] | ["add",["num",2],["num",3]] | ["div",["num",11],["num",2]] | ["max",["num",5],["num",2]] | ["max",["num",2],["num",5]] | ["min",["num",5],["num",7]] | ["min",["num",7],["num",5]] | ["sub",["num",10],["sub",["num",9],["num",4]]] | ["sub",["sub",["num",10],["num",4]],["num",1]] => const Ok(5) early Ok(5) late Ok(5) nowhere Ok(5)
["align",["num",5],["num",3]] | ["align",["num",6],["num",3]] | ["align",["num",4],["num",6]] | ["mul",["num",2],["num",3]] => const Ok(6) early Ok(6) late Ok(6) nowhere Ok(6)
["num",18446744073709551615] | ["add",["num",18446744073709551614],["num",1]] | ["mul",["num",4294967295],["num",4294967297]] | ["div",["num",18446744073709551615],["num",1]] | ["align",["num",1],["num",18446744073709551615]] | ["align",["num",18446744073709551615],["num",5]] | ["max",["num",18446744073709551615],["num",0]] => const Ok(18446744073709551615) early Ok(18446744073709551615) late Ok(18446744073709551615) nowhere Ok(18446744073709551615)
["sub",["num",1],["num",2]] | ["add",["num",18446744073709551615],["num",1]] | ["add",["num",18446744073709551615],["num",18446744073709551615]] | ["mul",["num",4294967296],["num",4294967296]] | ["mul",["num",2],["num",9223372036854775808]] | ["align",["num",18446744073709551615],["num",2]] | ["align",["num",9223372036854775809],["num",9223372036854775808]] | ["div",["sub",["num",0],["num",1]],["num",0]] | ["sub",["sub",["num",0],["num",1]],["div",["num",1],["num",0]]] => const Err(Overflow) early Err(Overflow) late Err(Overflow) nowhere Err(Overflow)
["div",["num",1],["num",0]] | ["align",["num",1],["num",0]] | ["div",["num",0],["num",0]] | ["mul",["num",0],["div",["num",1],["num",0]]] | ["sub",["div",["num",1],["num",0]],["sub",["num",0],["num",1]]] | ["align",["num",18446744073709551615],["num",0]] => const Err(DivideByZero) early Err(DivideByZero) late Err(DivideByZero) nowhere Err(DivideByZero)
«99 times ["add",»["num",0]«99 times ,["num",1]]» | «99 times ["add",["num",1],»["num",0]«99 times ]» => const Ok(99) early Ok(99) late Ok(99) nowhere Ok(99)
"#;

/// Operands of each kind. Symbol 0 is a redirect of the prelude to 7; symbols of a script are redirects to 1 / 0, to the
/// location, and to symbol 0 and 1; those of an object are the number 9, not defined, at byte 4 of part 0, in part 2, in no part,
/// defined by the number 9, at the start of part 1 and a byte behind it, and a common; those of a synthetic file are a section's
/// start, not defined, and a redirect.
const OPERANDS: &str = r#"
@ {"plan":{"page":16,"base":...,"sections":[{"parts":[[1,false]]},{"parts":[[1,false]]},{"parts":[[1,false]]}],"events":[["sec",0],["sec",1],["sec",2]],"regions":[{"name":"a","origin":["num",256],"length":["num",8]},{"name":"b","origin":["num",0],"length":["num",18446744073709551615]}]},"groups":[[{"kind":"prelude","symbols":[{"at":["redirect",["num",7],["none"],false]}]}],[{"kind":"script","symbols":[{"at":["redirect",["div",["num",1],["num",0]],["none"],false]},{"at":["redirect",["dot"],["none"],false]},{"at":["redirect",["add",["sym",0],["num",1]],["none"],false]}]}],[{"kind":"object","symbols":[{"at":["abs",9]},{"at":["undef"]},{"at":["sec",0,4]},{"at":["sec",0,0]},{"at":["sec",0,0]},{"at":["undef"],"def":4},{"at":["sec",0,0]},{"at":["sec",0,1]},{"at":["common",0,4]}],"sections":[{"slot":"must","size":16}]}],[{"kind":"synthetic","symbols":[{"at":["start",0]},{"at":["undefined"]},{"at":["redirect",["num",3],["none"],false]}]}]]}
["dot"] => const Err(NoAddress) early Ok(48) late Ok(80) nowhere Err(NoAddress)
["headers"] => const Err(NoAddress) early Ok(120) late Ok(120) nowhere Ok(120)
["addr",0] => const Err(NoAddress) early Ok(4096) late Ok(4096) nowhere Ok(4096)
["sizeof",0] => const Err(NoAddress) early Ok(16) late Ok(16) nowhere Ok(16)
["addr",1] => const Err(NoAddress) early Ok(18446744073709551615) late Ok(18446744073709551615) nowhere Ok(18446744073709551615)
["add",["addr",1],["num",1]] => const Err(NoAddress) early Err(Overflow) late Err(Overflow) nowhere Err(Overflow)
["addr",2] => const Err(NoAddress) early Err(NoAddress) late Ok(0) nowhere Ok(0)
["sizeof",2] => const Err(NoAddress) early Err(NoAddress) late Ok(18446744073709551615) nowhere Ok(18446744073709551615)
["origin",0] => const Err(NoAddress) early Ok(256) late Ok(256) nowhere Ok(256)
["length",0] => const Err(NoAddress) early Ok(8) late Ok(8) nowhere Ok(8)
["origin",1] => const Err(NoAddress) early Ok(0) late Ok(0) nowhere Ok(0)
["length",1] => const Err(NoAddress) early Ok(18446744073709551615) late Ok(18446744073709551615) nowhere Ok(18446744073709551615)
["sym",0] => const Err(NoAddress) early Ok(7) late Ok(1000) nowhere Ok(1000)
["sym",1] => const Err(NoAddress) early Err(DivideByZero) late Ok(1001) nowhere Ok(1001)
["sym",2] => const Err(NoAddress) early Err(NoAddress) late Err(SelfReference) nowhere Err(SelfReference)
["sym",3] => const Err(NoAddress) early Ok(8) late Err(NoAddress) nowhere Err(NoAddress)
["sym",4] | ["sym",9] => const Err(NoAddress) early Ok(9) late Ok(1004) nowhere Ok(1004)
["sym",5] | ["sym",14] => const Err(NoAddress) early Err(Missing) late Err(Missing) nowhere Err(Missing)
["sym",6] => const Err(NoAddress) early Ok(4100) late Ok(1006) nowhere Ok(1006)
["sym",7] => const Err(NoAddress) early Err(NoAddress) late Ok(1007) nowhere Ok(1007)
["sym",8] => const Err(NoAddress) early Err(NoAddress) late Err(NoAddress) nowhere Err(NoAddress)
["sym",10] => const Err(NoAddress) early Ok(18446744073709551615) late Ok(1010) nowhere Ok(1010)
["sym",11] => const Err(NoAddress) early Err(Overflow) late Ok(1011) nowhere Ok(1011)
["sym",12] => const Err(NoAddress) early Err(NoAddress) late Ok(1012) nowhere Ok(1012)
["sym",13] => const Err(NoAddress) early Err(NoAddress) late Ok(1013) nowhere Ok(1013)
["sym",15] => const Err(NoAddress) early Err(NoAddress) late Ok(1015) nowhere Ok(1015)
# The first cause counts, from left to right.
["add",["sym",5],["div",["num",1],["num",0]]] | ["mul",["num",0],["sym",5]] | ["add",["sym",5],["sym",2]] => const Err(NoAddress) early Err(Missing) late Err(Missing) nowhere Err(Missing)
["add",["div",["num",1],["num",0]],["sym",5]] => const Err(DivideByZero) early Err(DivideByZero) late Err(DivideByZero) nowhere Err(DivideByZero)
["add",["sym",2],["sym",5]] => const Err(NoAddress) early Err(NoAddress) late Err(SelfReference) nowhere Err(SelfReference)
["sub",["sym",4],["sym",0]] => const Err(NoAddress) early Ok(2) late Ok(4) nowhere Ok(4)
"#;

/// Regions, constants and where memory begins, over headers of 512 bytes.
const BEGINNINGS: &str = r#"
# Regions in their order: a name that an earlier one has, then origin and length, by numbers alone.
@ {"plan":{"page":16,"regions":[...]},"groups":[[{"kind":"prelude","symbols":[{"at":["undefined"]}]}]]}
 => regions [] constants [None] memory 0
{"origin":["add",["num",1],["num",2]],"length":["num",18446744073709551615]},{"name":"b","origin":["num",18446744073709551615],"length":["num",0]} => regions [(3, 18446744073709551615), (18446744073709551615, 0)] constants [None] memory 0
{"name":"ram","origin":["num",0],"length":["num",1]},{"name":"ram","origin":["num",8],"length":["num",1]} => refused RegionDuplicate { region: RegionId { number: 1 } }
{"name":"a","origin":["num",0],"length":["num",1]},{"name":"b","origin":["num",8],"length":["num",1]},{"name":"a","origin":["div",["num",1],["num",0]],"length":["num",1]} => refused RegionDuplicate { region: RegionId { number: 2 } }
{"name":"a","origin":["div",["num",1],["num",0]],"length":["num",1]},{"name":"a","origin":["num",8],"length":["num",1]} => refused Expression { place: Region(0), cause: DivideByZero }
{"origin":["sym",0],"length":["num",1]} | {"origin":["dot"],"length":["num",1]} | {"origin":["num",1],"length":["headers"]} | {"origin":["origin",0],"length":["div",["num",1],["num",0]]} => refused Expression { place: Region(0), cause: NoAddress }
{"name":"a","origin":["num",0],"length":["num",1]},{"name":"b","origin":["num",8],"length":["sub",["num",0],["num",1]]} => refused Expression { place: Region(1), cause: Overflow }
# The base.
@ {"plan":{"page":4096,"base":...},"groups":[[{"kind":"prelude"}]]}
["num",66304] => regions [] constants [] memory 66304
["num",0],"custom_phdrs":true | ["add",["dot"],["dot"]] => regions [] constants [] memory 0
["headers"] => regions [] constants [] memory 512
["num",65536],"custom_base":true | ["num",65536],"phdrs_headers":true | ["num",65536],"custom_base":true,"custom_phdrs":true => regions [] constants [] memory 61440
["num",66304],"custom_base":true | ["num",66304],"phdrs_headers":true,"custom_phdrs":true => regions [] constants [] memory 65536
["num",256],"custom_base":true | ["num",256],"custom_base":true,"phdrs_headers":true | ["num",256],"custom_base":true,"custom_phdrs":true,"phdrs_headers":true => regions [] constants [] refused BaseTooLow { base: 256, headers: 512 }
["num",511],"custom_base":true => regions [] constants [] refused BaseTooLow { base: 511, headers: 512 }
["num",512],"custom_base":true => regions [] constants [] memory 0
["num",4607],"custom_base":true => regions [] constants [] memory 0
["num",4608],"custom_base":true => regions [] constants [] memory 4096
["num",256],"custom_base":true,"custom_phdrs":true | ["num",256],"phdrs_headers":true => regions [] constants [] memory 256
["num",18446744073709551615],"custom_base":true => regions [] constants [] memory 18446744073709547520
["num",18446744073709551615] => regions [] constants [] memory 18446744073709551615
["div",["num",1],["num",0]] => regions [] constants [] refused Expression { place: Base, cause: DivideByZero }
["sub",["num",0],["num",1]],"custom_base":true => regions [] constants [] refused Expression { place: Base, cause: Overflow }
["num",256],"sections":[{"parts":[[1,false]]}],"events":[["sec",0]],"regions":[{"origin":["num",64],"length":["num",9]}] => regions [(64, 9)] constants [] memory 256
["add",["origin",0],["length",0]],"regions":[{"origin":["num",64],"length":["num",9]}] => regions [(64, 9)] constants [] memory 73
["addr",0],"sections":[{"parts":[[1,false]]}],"events":[["sec",0]] | ["sizeof",0],"sections":[{"parts":[[1,false]]}],"events":[["sec",0]] => regions [] constants [] refused Expression { place: Base, cause: NoAddress }
# Redirects, each by those before it.
@ {"plan":{"page":16,"base":["sym",0],"regions":[{"origin":["num",64],"length":["num",9]}]},"groups":[[{"kind":"prelude"}],[{"kind":"script","symbols":[...]}],[{"kind":"object","symbols":[{"at":["abs",5]}]}]]}
{"at":["redirect",["num",64],["none"],true]} => regions [(64, 9)] constants [Some(Ok(64)), None] memory 64
{"at":["redirect",["num",16],["none"],false]},{"at":["redirect",["add",["sym",0],["num",1]],["none"],false]},{"at":["redirect",["sym",2],["none"],false]},{"at":["redirect",["sym",4],["none"],false]},{"at":["redirect",["num",3],["none"],false]},{"at":["redirect",["div",["num",1],["num",0]],["none"],false]},{"at":["redirect",["sub",["num",1],["num",2]],["none"],false]} => regions [(64, 9)] constants [Some(Ok(16)), Some(Ok(17)), None, None, Some(Ok(3)), Some(Err(DivideByZero)), Some(Err(Overflow)), None] memory 16
{"at":["redirect",["sym",4],["none"],false]},{"at":["redirect",["add",["sym",0],["origin",0]],["none"],false]},{"at":["redirect",["dot"],["none"],false]},{"at":["redirect",["add",["length",0],["headers"]],["none"],false]} => regions [(64, 9)] constants [Some(Ok(5)), Some(Ok(69)), None, Some(Ok(521)), None] memory 5
{"at":["redirect",["sym",1],["none"],false]},{"at":["redirect",["num",1],["none"],false]} | {"at":["redirect",["sym",0],["none"],false]},{"at":["redirect",["num",1],["none"],false]} | {"at":["redirect",["dot"],["none"],false]},{"at":["redirect",["num",1],["none"],false]} => regions [(64, 9)] constants [None, Some(Ok(1)), None] refused Expression { place: Base, cause: NoAddress }
{"at":["redirect",["div",["num",1],["num",0]],["none"],false]},{"at":["redirect",["sym",0],["none"],false]} => regions [(64, 9)] constants [Some(Err(DivideByZero)), Some(Err(DivideByZero)), None] refused Expression { place: Base, cause: DivideByZero }
{"at":["undefined"]} => regions [(64, 9)] constants [None, None] refused Expression { place: Base, cause: Missing }
"#;

/// Whether plans are plain: sections with memory and bytes of the file, thread-local ones with and without bytes, with memory
/// alone, and without memory.
const PLAIN: &str = r#"
@ {"plan":{"page":4096,"sections":[{"attrs":1,"parts":[[4,false]]},{"attrs":9,"parts":[[4,false]]},{"attrs":25,"parts":[[16,false]]},{"attrs":17,"parts":[[4,false]]},{"parts":[[4,false]]},{"attrs":1,"parts":[[4,false]]},{"attrs":24,"primary":0,"parts":[[4,false]]}],"segments":[{"kind":"load"},{"kind":"load"},{"kind":"tls"}],"events":[...]},"groups":[[{"kind":"prelude"}],[{"kind":"script"}]]}
["seg",0],["sec",1],["sec",2],["sec",0],["endseg",0],["seg",1],["endseg",1],["sec",3],["sec",4],["sec",5],["sec",6],["seg",2],["endseg",2] => plain true
# Another load segment opens behind zero-fill thread-local data, and with a section between; not plain, where a location waits for it.
["seg",0],["sec",1],["sec",2],["endseg",0],["seg",1],["sec",0],["endseg",1],["sec",3],["sec",4],["sec",5],["sec",6],["seg",2],["endseg",2] | ["seg",0],["sec",1],["sec",2],["endseg",0],["sec",4],["seg",1],["sec",0],["endseg",1],["sec",3],["sec",5],["sec",6],["seg",2],["endseg",2] => plain true
["seg",0],["sec",1],["sec",2],["endseg",0],["loc",["num",12288]],["seg",1],["sec",0],["endseg",1],["sec",3],["sec",4],["sec",5],["sec",6],["seg",2],["endseg",2] => plain false
# A segment of another kind lies across.
["seg",2],["seg",0],["sec",1],["sec",2],["endseg",2],["sec",0],["endseg",0],["sec",3],["seg",1],["sec",5],["endseg",1],["sec",4],["sec",6] => plain true
# Load segments overlap, the one in the other or across.
["seg",0],["seg",1],["sec",0],["endseg",1],["endseg",0],["sec",1],["sec",2],["sec",3],["sec",4],["sec",5],["sec",6],["seg",2],["endseg",2] | ["seg",0],["seg",1],["sec",0],["endseg",0],["endseg",1],["sec",1],["sec",2],["sec",3],["sec",4],["sec",5],["sec",6],["seg",2],["endseg",2] => plain false
# Inside stand a section without memory, zero-fill thread-local data with bytes of the file, and bytes of the file behind memory
# alone.
["seg",0],["sec",0],["sec",4],["endseg",0],["seg",1],["endseg",1],["sec",1],["sec",2],["sec",3],["sec",5],["sec",6],["seg",2],["endseg",2] | ["seg",0],["endseg",0],["seg",1],["sec",0],["sec",6],["endseg",1],["sec",1],["sec",2],["sec",3],["sec",4],["sec",5],["seg",2],["endseg",2] | ["seg",0],["sec",3],["sec",0],["endseg",0],["seg",1],["endseg",1],["sec",1],["sec",2],["sec",4],["sec",5],["sec",6],["seg",2],["endseg",2] => plain false
["seg",0],["sec",0],["sec",3],["endseg",0],["seg",1],["sec",5],["endseg",1],["sec",1],["sec",2],["sec",4],["sec",6],["seg",2],["endseg",2] => plain true
# The location moves.
["seg",0],["sec",0],["endseg",0],["seg",1],["endseg",1],["sec",1],["sec",2],["sec",3],["sec",4],["sec",5],["sec",6],["seg",2],["endseg",2],["loc",["dot"]] | ["seg",0],["sec",0],["endseg",0],["seg",1],["endseg",1],["sec",1],["sec",2],["sec",3],["sec",4],["sec",5],["sec",6],["seg",2],["endseg",2],["locrel",["dot"],0] | ["addr",["dot"]],["seg",0],["sec",0],["endseg",0],["seg",1],["endseg",1],["sec",1],["sec",2],["sec",3],["sec",4],["sec",5],["sec",6],["seg",2],["endseg",2] => plain false
@ {"plan":{"page":4096,"sections":[{"attrs":1,"parts":[[4,false]]}],"segments":[{"kind":"load"}],"events":[["seg",0],["sec",0],["endseg",0]]...},"groups":[[{"kind":"prelude"}]]}
 | },"options":{"output":"shared" => plain true
},"options":{"output":"partial" | ,"regions":[{"origin":["num",0],"length":["num",1]}] => plain false
"#;

/// The record of so many bytes of memory at an address, unless they pass the end of memory.
fn record_of(address: u64, bytes: u64) -> OutputRecordLayout {
    let mem_size = if address.checked_add(bytes).is_some() {
        bytes
    } else {
        0
    };
    OutputRecordLayout {
        file_size: 0,
        mem_size,
        alignment: Alignment::one(),
        file_offset: 0,
        mem_offset: address,
        lma_offset: address,
    }
}

/// The place of a symbol.
fn position_of(part: u32, offset: u64) -> Option<SymbolPosition> {
    Some(SymbolPosition {
        part: PartId::from_u32(part),
        offset,
    })
}

/// The places of symbols 6, 7, 10 and 11.
fn positions(alloc: Global) -> Result<SymbolPositions, AllocError> {
    let mut positions = vec![in alloc; None; 16]?;
    positions[6] = position_of(0, 4);
    positions[7] = position_of(2, 0);
    positions[10] = position_of(1, 0);
    positions[11] = position_of(1, 1);
    Ok(SymbolPositions::new(List::from_vec(positions)))
}

/// The value of symbol N: 1000 and N, but for symbols 3 and 8, which have none.
fn values(alloc: Global) -> Result<Vec<Option<u64>>, AllocError> {
    let mut values = Vec::new(alloc);
    for number in 0..16_u64 {
        let is_there = number != 3 && number != 8;
        values.push(if is_there { Some(1000 + number) } else { None })?;
    }
    Ok(values)
}

/// Origin and length of two regions.
const REGIONS: &[(u64, u64)] = &[(256, 8), (0, 18446744073709551615)];

/// Adds what the base is worth while sections are placed, where the last of three isn't.
fn add_early(
    line: &mut String,
    link: &LinkInput,
    constants: &[Option<Constant>],
    positions: &SymbolPositions,
) -> Result<(), AllocError>
    requires { AreShallow link.now }
{
    let placed = [
        Some(record_of(4096, 16)),
        Some(record_of(18446744073709551615, 0)),
        None,
    ];
    let records = GivenRecords {
        sections: &placed,
        parts: &placed,
    };
    let known = EarlySurroundings {
        link,
        dot: 48,
        headers: 120,
        regions: REGIONS,
        constants,
        records: &records,
        positions,
    };
    let value = evaluate_early_expression(&known, &link.plan.base);
    add(line, "early", &value)
}

/// Adds what the base is worth when all is placed, as the expression of symbol 2.
fn add_late(
    line: &mut String,
    word: &str,
    link: &LinkInput,
    dot: Option<u64>,
    values: &[Option<u64>],
) -> Result<(), AllocError>
    requires { AreShallow link.now }
{
    let sections = [
        record_of(4096, 16),
        record_of(18446744073709551615, 0),
        record_of(0, 18446744073709551615),
    ];
    let given = GivenValues { values };
    let known = LateSurroundings {
        link,
        own: SymbolId::from_u32(2),
        dot,
        headers: 120,
        regions: REGIONS,
        sections: &sections,
        values: &given,
    };
    let value = evaluate_expression(&known, &link.plan.base);
    add(line, word, &value)
}

/// Adds what the base is worth while sections are placed.
fn add_placing(alloc: Global, line: &mut String, link: &LinkInput) -> Result<(), AllocError>
    requires { AreShallow link.now }
{
    let constants = constant_redirects(alloc, link, 120, REGIONS)?;
    let positions = positions(alloc)?;
    add_early(line, link, &constants, &positions)
}

/// Adds what the base is worth when all is placed, at a location and at none.
fn add_lates(alloc: Global, line: &mut String, link: &LinkInput) -> Result<(), AllocError>
    requires { AreShallow link.now }
{
    let values = values(alloc)?;
    add_late(line, "late", link, Some(80), &values)?;
    add_late(line, "nowhere", link, None, &values)
}

/// Adds what the base is worth everywhere, of a link whose expressions aren't too deep.
fn add_worth(alloc: Global, line: &mut String, link: &LinkInput) -> Result<(), AllocError>
    requires { AreShallow link.now }
{
    add(line, "const", &evaluate_const(link, &link.plan.base))?;
    add_placing(alloc, line, link)?;
    add_lates(alloc, line, link)
}

/// Adds what the base is worth everywhere, of a link that is well formed.
pub fn add_values(alloc: Global, line: &mut String, link: &LinkInput) -> Result<(), AllocError> {
    expressions_are_shallow();
    match check_link(link) {
        Ok(()) => add_worth(alloc, line, link),
        Err(_) => line.push_str("no good link"),
    }
}

/// Adds the constants by these regions, and where memory begins.
fn add_memory(
    alloc: Global,
    line: &mut String,
    link: &LinkInput,
    regions: &[(u64, u64)],
) -> Result<(), AllocError>
    requires shallow { AreShallow link.now }
    requires page { 0 < link.now.plan.page }
{
    add(line, "regions", &regions)?;
    let constants = constant_redirects(alloc, link, 512, regions)?;
    add(line, "constants", &constants)?;
    match first_memory(alloc, link, 512, regions, &constants) {
        Ok(memory) => add(line, "memory", &memory),
        Err(error) => add(line, "refused", &error),
    }
}

/// Adds regions, constants and where memory begins, or the first refusal.
fn add_begun(alloc: Global, line: &mut String, link: &LinkInput) -> Result<(), AllocError>
    requires good { IsWellFormed link.now }
    requires shallow { AreShallow link.now }
{
    if link.plan.page == 0 || link.plan.regions.len() > 64 {
        return Ok(());
    }
    match evaluate_regions(alloc, link) {
        Ok(regions) => add_memory(alloc, line, link, regions.as_slice()),
        Err(error) => add(line, "refused", &error),
    }
}

/// Adds the same of a link that is well formed.
pub fn add_beginning(alloc: Global, line: &mut String, link: &LinkInput) -> Result<(), AllocError> {
    expressions_are_shallow();
    match check_link(link) {
        Ok(()) => add_begun(alloc, line, link),
        Err(_) => line.push_str("no good link"),
    }
}

/// Adds whether the plan of a link that is well formed is plain.
pub fn add_plain(line: &mut String, link: &LinkInput) -> Result<(), AllocError> {
    match check_link(link) {
        Ok(()) => add(line, "plain", &is_plain(&link.plan, link.options.output)),
        Err(_) => line.push_str("no good link"),
    }
}

#[test]
fn numbers_are_worth_the_same_everywhere(rt: HostRuntime) -> Result<(), Fail> {
    expect_rows(
        &rt,
        rt.alloc(),
        Asked::Placement(OfPlacement::Values),
        NUMBERS,
    )
}

#[test]
fn operands_are_worth_what_is_known(rt: HostRuntime) -> Result<(), Fail> {
    expect_rows(
        &rt,
        rt.alloc(),
        Asked::Placement(OfPlacement::Values),
        OPERANDS,
    )
}

#[test]
fn regions_constants_and_base_come_before_the_first_event(rt: HostRuntime) -> Result<(), Fail> {
    expect_rows(
        &rt,
        rt.alloc(),
        Asked::Placement(OfPlacement::Beginning),
        BEGINNINGS,
    )
}

#[test]
fn plain_plans_are_told(rt: HostRuntime) -> Result<(), Fail> {
    expect_rows(&rt, rt.alloc(), Asked::Placement(OfPlacement::Plain), PLAIN)
}
