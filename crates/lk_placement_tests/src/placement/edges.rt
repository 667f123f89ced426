//! What the symbols stand at that the linker itself places, and what redirects come to when all is placed.
//!
//! A row has the bytes of the headers, those of all parts and the numbers of the active segments, with commas between or `-` for none,
//! and then a description. What has bytes is emitted, and regions aren't told. The answer is what each symbol stands at by its
//! placement, and then what each is worth behind all redirects, or the refusal; `-` is nothing. Of other files' symbols numbers alone
//! are worth anything here.

ghost use Rattle.std.specs.Prelude.{◌≡◌, ◌<◌, All, IfOk, length};
ghost use Rattle.lk_own_symbols.specs.Edges.{EndsBelow};
ghost use Rattle.lk_link.specs.WellFormed.{IsWellFormed};

use crate::placement::OfPlacement;
use crate::placement::walked::numbers_of;
use crate::rows::{Asked, expect_rows};
use lk_check::check_link;
use lk_input::{InputError, read_link};
use lk_link::{
    FileKind, InputFile, InputSymbol, LinkInput, List, Plan, SegmentId, Small64, SymbolId,
    SymbolPlacement, ValueFlags,
};
use lk_live::{Live, traverse_alone};
use lk_own_symbols::laws::segments_end_below;
use lk_own_symbols::{Edges, KnownValues, PlacedLink, SymbolValues, edges_of, evaluate_redirects};
use lk_place::{
    OutputRecordLayout, Placed, SegmentFileLayout, SegmentLayout, SymbolPositions,
    compute_layout_sections, compute_segment_layout, merge_secondary_parts,
};
use lk_test_rows::add;
use std::alloc::{AllocError, Global};
use std::marker::Model;
use std::test::Fail;

/// Edges.
const EDGES: &str = r#"
# A start and an end, of a section without bytes too, where what is loaded begins, and what isn't defined.
0 4,0 0 {"plan":{"page":16,"base":["num",32],"sections":[{"attrs":1,"parts":[[1,false]]},{"attrs":1,"parts":[[1,false]]}],"segments":[{"kind":"load"}],"events":[["seg",0],["sec",0],["sec",1],["endseg",0]]},"groups":[[{"kind":"prelude","symbols":[{"at":["start",0],"name":"s0"},{"at":["end",0],"name":"e0"},{"at":["start",1],"name":"s1"},{"at":["loadbase"],"name":"b"},{"at":["force"],"name":"f"},{"at":["undefined"],"name":"u"}]}],[{"kind":"object","sections":[{"slot":"must","part":0,"size":4}]}]]} => edges 32 36 36 32 0 0 values - - - - - -
# A symbol of a script that is hidden has no value by itself; one with a name that isn't is exported.
0 0 0 {"plan":{"page":16,"sections":[{"attrs":1,"parts":[[1,false]]}],"segments":[{"kind":"load"}],"events":[["seg",0],["sec",0],["endseg",0]]},"groups":[[{"kind":"prelude"}],[{"kind":"script","symbols":[{"at":["start",0],"name":"a","hidden":true},{"at":["start",0],"name":"b"}]}]]} => edges 0 0 values - 0
# The first load segment that is active; and none.
0 1 1 {"options":{"entry":0},"plan":{"page":16,"base":["num",64],"sections":[{"attrs":1,"parts":[[1,false]]}],"segments":[{"kind":"load"},{"kind":"load","always":true}],"events":[["seg",0],["endseg",0],["seg",1],["sec",0],["endseg",1]]},"groups":[[{"kind":"prelude","symbols":[{"at":["loadbase"],"name":"b"}]}],[{"kind":"object","sections":[{"slot":"must","size":1}]}]]} => edges 64 values 64
0 - - {"options":{"entry":0},"plan":{"page":1},"groups":[[{"kind":"prelude","symbols":[{"at":["loadbase"],"name":"b"}]}]]} => edges - values -
# The end of thread-local data, 0 where no segment of it is active, and edges of its sections and of one behind them.
0 4,16,4 0,1 {"plan":{"page":4096,"base":["num",4096],"sections":[{"attrs":9,"parts":[[4,false]]},{"attrs":25,"parts":[[16,false]]},{"attrs":1,"parts":[[4,false]]}],"segments":[{"kind":"load"},{"kind":"tls"}],"events":[["seg",0],["seg",1],["sec",0],["sec",1],["endseg",1],["sec",2],["endseg",0]]},"groups":[[{"kind":"prelude","symbols":[{"at":["tlsend"],"name":"t"},{"at":["start",1]},{"at":["end",1]},{"at":["start",2]},{"at":["loadbase"]}]}]]} => edges 4128 4112 4128 4100 4096 values - - - - -
0 4,16,4 0 {"plan":{"page":4096,"base":["num",4096],"sections":[{"attrs":9,"parts":[[4,false]]},{"attrs":25,"parts":[[16,false]]},{"attrs":1,"parts":[[4,false]]}],"segments":[{"kind":"load"},{"kind":"tls"}],"events":[["seg",0],["seg",1],["sec",0],["sec",1],["endseg",1],["sec",2],["endseg",0]]},"groups":[[{"kind":"prelude","symbols":[{"at":["tlsend"],"name":"t"}]}]]} => edges 0 values -
"#;

/// Redirects.
const REDIRECTS: &str = r#"
# One after the other.
@ 0 - - {"plan":{"page":1},"groups":[[{"kind":"prelude"}],[{"kind":"script","symbols":[...]}]]}
{"at":["redirect",["num",16],["none"],false],"name":"x"},{"at":["redirect",["add",["sym",0],["num",1]],["none"],false],"name":"y"},{"at":["redirect",["add",["sym",1],["sym",1]],["none"],false],"name":"z","hidden":true} => edges 0 0 0 values 16 17 34
# One that only provides and has no name is left out, and gives no value to others.
{"at":["redirect",["num",7],["none"],true],"name":"r"},{"at":["redirect",["sym",0],["none"],false],"name":"s"} => edges 0 0 values 7 7
{"at":["redirect",["num",7],["none"],true]},{"at":["redirect",["sym",0],["none"],false],"name":"s"} => edges 0 0 refused Expression { place: Symbol(1), cause: NoAddress }
# One of itself, and of one that stands behind it; other causes; no location.
{"at":["redirect",["sym",0],["none"],false],"name":"z"} => edges 0 refused Expression { place: Symbol(0), cause: SelfReference }
{"at":["redirect",["sym",1],["none"],false],"name":"w"},{"at":["redirect",["num",1],["none"],false],"name":"x"} => edges 0 0 refused Expression { place: Symbol(0), cause: NoAddress }
{"at":["redirect",["div",["num",1],["num",0]],["none"],false],"name":"x"} => edges 0 refused Expression { place: Symbol(0), cause: DivideByZero }
{"at":["redirect",["sub",["num",1],["num",2]],["none"],false],"name":"x"} => edges 0 refused Expression { place: Symbol(0), cause: Overflow }
{"at":["redirect",["dot"],["none"],false],"name":"x"} => edges 0 refused Expression { place: Symbol(0), cause: NoAddress }
@ 0 - - {"plan":{"page":1},"groups":[[{"kind":"prelude","symbols":[...]}]]}
# One without a name is evaluated all the same, and gives no value to others.
{"at":["redirect",["sym",0],["none"],false]} => edges 0 refused Expression { place: Symbol(0), cause: SelfReference }
{"at":["redirect",["sub",["num",0],["num",1]],["none"],false]} => edges 0 refused Expression { place: Symbol(0), cause: Overflow }
{"at":["redirect",["num",1],["none"],false]},{"at":["redirect",["sym",0],["none"],false],"name":"x"} => edges 0 0 refused Expression { place: Symbol(1), cause: NoAddress }
# Behind it stands a script's; a file isn't loaded; nothing is.
{"at":["redirect",["sym",1],["none"],false],"name":"w"}]}],[{"kind":"script","symbols":[{"at":["redirect",["num",1],["none"],false],"name":"x"} => edges 0 0 refused Expression { place: Symbol(0), cause: NoAddress }
{"at":["redirect",["sym",1],["none"],false],"name":"x"}]}],[{"kind":"notloaded","symbols":[{"at":["dyn"]} => edges 0 - refused Expression { place: Symbol(0), cause: NoAddress }
{"at":["loadbase"],"name":"b"},{"at":["redirect",["sym",0],["none"],false],"name":"p"} => edges - 0 refused Expression { place: Symbol(1), cause: NoAddress }
@ ...
# A symbol that isn't defined comes before all.
0 - - {"options":{"entry":1},"plan":{"page":1},"groups":[[{"kind":"prelude","symbols":[{"at":["redirect",["add",["sym",1],["sym",0]],["none"],false],"name":"x"}]}],[{"kind":"object","symbols":[{"at":["undef"]}]}]]} => edges 0 - refused Expression { place: Symbol(0), cause: Missing }
# What only provides is evaluated where something asks for it.
0 - - {"options":{"entry":0},"plan":{"page":1},"groups":[[{"kind":"prelude"}],[{"kind":"script","symbols":[{"at":["redirect",["num",5],["none"],true],"name":"x"},{"at":["redirect",["div",["num",1],["num",0]],["none"],true],"name":"y"},{"at":["redirect",["sub",["num",0],["num",1]],["none"],true]}]}]]} => edges 0 0 0 values 5 - -
# A redirect of a synthetic file is 0.
0 4 - {"plan":{"page":1,"sections":[{"parts":[[1,false]]}],"events":[["sec",0]]},"groups":[[{"kind":"prelude"}],[{"kind":"synthetic","symbols":[{"at":["redirect",["num",7],["none"],false],"name":"x"}]}],[{"kind":"object","symbols":[{"at":["undef"],"def":0}],"sections":[{"slot":"must","size":4,"relocs":[[0,"Absolute",0,0,false]]}]}]]} => edges 0 - values 0 -
# The first counter is the base's value, also where memory begins before it.
120 1 0 {"plan":{"page":4096,"sections":[{"attrs":1,"parts":[[1,false]]}],"segments":[{"kind":"load"}],"events":[["seg",0],["sec",0],["endseg",0]],"base":["num",65536],"custom_base":true},"groups":[[{"kind":"prelude"}],[{"kind":"script","symbols":[{"at":["redirect",["dot"],["counter",0],false],"name":"c"}]}],[{"kind":"object","sections":[{"slot":"must","part":0,"size":1}]}]]} => edges 0 values 65536
# A redirect of the prelude sees merged records; one of a script that has a location sees each section by itself.
0 4,4 0 {"plan":{"page":16,"sections":[{"attrs":1,"parts":[[1,false]]},{"attrs":1,"parts":[[1,false]],"primary":0}],"segments":[{"kind":"load"}],"events":[["seg",0],["sec",0],["sec",1],["endseg",0]],"base":["num",16]},"groups":[[{"kind":"prelude","symbols":[{"at":["redirect",["dot"],["end",1],false],"name":"e"},{"at":["redirect",["dot"],["end",0],false],"name":"p"}]}],[{"kind":"object","sections":[{"slot":"must","part":0,"size":4},{"slot":"must","part":1,"size":4}]}]]} => edges 0 0 values 0 24
0 4,3,0 0 {"plan":{"page":16,"base":["num",64],"sections":[{"attrs":1,"parts":[[1,false]]},{"attrs":1,"parts":[[8,true]],"primary":0},{"attrs":1,"parts":[[1,false]]}],"segments":[{"kind":"load"}],"events":[["seg",0],["sec",0],["sec",1],["sec",2],["endseg",0]]},"groups":[[{"kind":"prelude"}],[{"kind":"object","sections":[{"slot":"must","part":0,"size":4},{"slot":"must","part":1,"size":3}]}],[{"kind":"script","symbols":[{"at":["redirect",["add",["dot"],["sizeof",0]],["start",1],false],"name":"a"},{"at":["redirect",["add",["addr",1],["sizeof",0]],["none"],false],"name":"b"},{"at":["redirect",["dot"],["end",2],false],"name":"c"}]}]]} => edges 0 0 0 values 76 7 75
0 4,2 0 {"plan":{"page":16,"base":["num",16],"sections":[{"attrs":1,"parts":[[1,false]]},{"attrs":1,"parts":[[1,false]],"primary":0}],"segments":[{"kind":"load"}],"events":[["seg",0],["sec",0],["sec",1],["endseg",0]]},"groups":[[{"kind":"prelude"}],[{"kind":"script","symbols":[{"at":["redirect",["addr",1],["none"],false],"name":"m"},{"at":["redirect",["addr",1],["counter",0],false],"name":"o"},{"at":["redirect",["sizeof",0],["none"],false],"name":"g"},{"at":["groupend",0],"name":"e"},{"at":["end",0],"name":"x"}]}],[{"kind":"object","sections":[{"slot":"must","part":0,"size":4},{"slot":"must","part":1,"size":2}]}]]} => edges 0 0 0 22 20 values 0 20 6 22 20
"#;

/// Values of symbols, by their numbers.
#[derive(Drop)]
struct Values {
    values: Vec<Option<u64>>,
}

impl Model for Values {
    ghost use Rattle.std.specs.Prelude.{ℕ, List, Option};

    ghost Value = { List (Option ℕ) };

    ghost view = { λ a. a.values.items };
}

impl KnownValues for Values {
    ghost use Rattle.lk_own_symbols.specs.Stores.{kept_value};

    ghost value_of = { kept_value (λ n. n) };

    fn value(&self, symbol: SymbolId) -> Option<u64> {
        match self.values.get(symbol.as_usize()) {
            Some(value) => *value,
            None => None,
        }
    }
}

impl SymbolValues for Values {
    ghost use Rattle.std.specs.Prelude.{refl};
    ghost use Rattle.lk_own_symbols.specs.Stores.{kept_alone, kept_with};

    ghost with_value = { kept_with (λ _ n. n) };

    ghost sets_alone = { kept_alone (λ n. n) (λ _ n. n) (λ _ m. refl) };

    fn set_value(&mut self, symbol: SymbolId, value: u64) {
        let number = symbol.as_usize();
        if number < self.values.len() {
            self.values[number] = self.values[number].map(|_| value);
        }
    }
}

/// What is given beside the link.
#[derive(Clone, Copy)]
struct Given<'a> {
    headers: u64,
    sizes: &'a [u64],
    active: &'a [u64],
}

/// What a symbol is worth before redirects are.
fn first_value(
    kind: FileKind,
    number: SymbolId,
    symbol: &InputSymbol,
    flags: ValueFlags,
    edges: &Edges<'_>,
) -> Option<u64> {
    if !symbol.is_wanted(kind, number, flags) {
        return None;
    }
    match &symbol.at {
        SymbolPlacement::Absolute(value) => Some(*value),
        at => edges.value(at),
    }
}

/// The flags of the symbol with a number.
fn flags_at(live: &Live, number: usize) -> ValueFlags {
    match live.flags.as_slice().get(number) {
        Some(flags) => *flags,
        None => ValueFlags(0),
    }
}

/// Adds what the symbols of a file are worth before redirects are, behind those of the files before it.
fn push_file(
    values: &mut Vec<Option<u64>>,
    file: &InputFile,
    live: &Live,
    edges: &Edges<'_>,
) -> Result<(), AllocError> {
    for symbol in file.symbols.as_slice() {
        let number = values.len();
        let id = SymbolId::from_u32(u32::try_from(number).unwrap_or(u32::MAX));
        let flags = flags_at(live, number);
        values.push(first_value(file.kind, id, symbol, flags, edges))?;
    }
    Ok(())
}

/// What all symbols are worth before redirects are.
fn first_values(
    alloc: Global,
    link: &LinkInput,
    live: &Live,
    edges: &Edges<'_>,
) -> Result<Values, AllocError> {
    let mut values = Vec::new(alloc);
    for files in link.groups.as_slice() {
        for file in files.as_slice() {
            push_file(&mut values, file, live, edges)?;
        }
    }
    Ok(Values { values })
}

/// Adds a number, if there is one.
fn add_number(line: &mut String, number: Option<u64>) -> Result<(), AllocError> {
    match number {
        Some(number) => write!(line, " {number}"),
        None => line.push_str(" -"),
    }
}

/// Adds what the symbols of a file stand at.
fn add_file(line: &mut String, file: &InputFile, edges: &Edges<'_>) -> Result<(), AllocError> {
    for symbol in file.symbols.as_slice() {
        add_number(line, edges.value(&symbol.at))?;
    }
    Ok(())
}

/// Adds what all symbols stand at.
fn add_edges(line: &mut String, link: &LinkInput, edges: &Edges<'_>) -> Result<(), AllocError> {
    line.push_str("edges")?;
    for files in link.groups.as_slice() {
        for file in files.as_slice() {
            add_file(line, file, edges)?;
        }
    }
    Ok(())
}

/// Adds values.
fn add_values(line: &mut String, values: &Values) -> Result<(), AllocError> {
    line.push_str(" values")?;
    for value in &values.values {
        add_number(line, *value)?;
    }
    Ok(())
}

/// Adds what symbols are worth behind all redirects, or the refusal.
fn add_redirected(
    line: &mut String,
    placed: &PlacedLink<'_>,
    values: &mut Values,
) -> Result<(), AllocError>
    requires { IsWellFormed placed.now.link.now }
{
    match evaluate_redirects(placed, values) {
        Ok(()) => add_values(line, values),
        Err(error) => add(line, "refused", &error),
    }
}

/// Adds edges, and what comes of redirects, by where all stands.
fn add_by_edges(
    alloc: Global,
    line: &mut String,
    all: &PlacedLink<'_>,
    live: &Live,
    edges: &Edges<'_>,
) -> Result<(), AllocError>
    requires { IsWellFormed all.now.link.now }
{
    add_edges(line, all.link, edges)?;
    let mut values = first_values(alloc, all.link, live, edges)?;
    add_redirected(line, all, &mut values)
}

/// The same by these records, with their secondaries.
fn add_by_segments(
    alloc: Global,
    line: &mut String,
    all: &PlacedLink<'_>,
    live: &Live,
    segments: &[SegmentLayout],
) -> Result<(), AllocError>
    requires good { IsWellFormed all.now.link.now }
    requires each { length all.now.sections.now ≡ length all.now.link.now.plan.sections }
    requires below { EndsBelow all.now.link.now.plan segments.now }
{
    let edges = edges_of(alloc, all.link, all.sections, segments)?;
    add_by_edges(alloc, line, all, live, &edges)
}

/// Those of these numbers that are numbers of segments.
fn segments_of(alloc: Global, plan: &Plan, numbers: &[u64]) -> Result<Vec<SegmentId>, AllocError>
    ensures { IfOk result (λ all. All (λ i. i < length plan.now.segments) all.items) }
{
    let mut all = Vec::new(alloc);
    for number in numbers {
        let number = u32::try_from(*number).unwrap_or(u32::MAX);
        if (number as usize) < plan.segments.len() {
            all.push(SegmentId::from_u32(number))?;
        }
    }
    Ok(all)
}

/// The marks of records with bytes.
fn filled(alloc: Global, records: &[OutputRecordLayout]) -> Result<Vec<bool>, AllocError> {
    let mut marks = Vec::new(alloc);
    for record in records {
        marks.push(record.is_filled())?;
    }
    Ok(marks)
}

/// The same by what these segments span.
fn add_by_active(
    alloc: Global,
    line: &mut String,
    all: &PlacedLink<'_>,
    live: &Live,
    active: &[SegmentId],
) -> Result<(), AllocError>
    requires good { IsWellFormed all.now.link.now }
    requires each { length all.now.sections.now ≡ length all.now.link.now.plan.sections }
    requires there { All (λ i. i < length all.now.link.now.plan.segments) active.now }
{
    segments_end_below();
    let marks = filled(alloc, all.sections)?;
    let kind = SegmentFileLayout::FromSections;
    match compute_segment_layout(alloc, all.link, all.sections, &marks, active, kind) {
        Ok(layouts) => add_by_segments(alloc, line, all, live, layouts.segments.as_slice()),
        Err(error) => add(line, "refused", &error),
    }
}

/// The same by records of sections and these with their secondaries.
fn add_by_records(
    alloc: Global,
    line: &mut String,
    all: &PlacedLink<'_>,
    live: &Live,
    given: Given<'_>,
) -> Result<(), AllocError>
    requires { IsWellFormed all.now.link.now }
{
    if all.sections.len() != all.link.plan.sections.len() {
        return line.push_str("other sections");
    }
    let active = segments_of(alloc, &all.link.plan, given.active)?;
    add_by_active(alloc, line, all, live, &active)
}

/// The same by what is placed.
fn add_placed(
    alloc: Global,
    line: &mut String,
    link: &LinkInput,
    live: &Live,
    given: Given<'_>,
    placed: &Placed,
) -> Result<(), AllocError>
    requires { IsWellFormed link.now }
{
    let sections = placed.sections.as_slice();
    if sections.len() != link.plan.sections.len() {
        return line.push_str("other sections");
    }
    match merge_secondary_parts(alloc, link, sections) {
        Ok(merged) => {
            let all = PlacedLink {
                link,
                headers: given.headers,
                regions: &[],
                counters: placed.counters.as_slice(),
                sections,
                merged: &merged,
            };
            add_by_records(alloc, line, &all, live, given)
        }
        Err(error) => add(line, "refused", &error),
    }
}

/// The same by where the walk puts all.
fn add_walked(
    alloc: Global,
    line: &mut String,
    link: &LinkInput,
    live: &Live,
    given: Given<'_>,
) -> Result<(), AllocError>
    requires { IsWellFormed link.now }
{
    if given.sizes.len() != link.plan.sections.parts().len() {
        return line.push_str("other parts");
    }
    let nowhere = SymbolPositions::new(List::new(alloc));
    match compute_layout_sections(alloc, link, given.sizes, &nowhere, given.headers, &Small64) {
        Ok(placed) => add_placed(alloc, line, link, live, given, &placed),
        Err(error) => add(line, "refused", &error),
    }
}

/// The same of a link that is well formed.
fn add_live(
    alloc: Global,
    line: &mut String,
    link: &LinkInput,
    given: Given<'_>,
) -> Result<(), AllocError>
    requires { IsWellFormed link.now }
{
    match traverse_alone(alloc, link) {
        Ok(live) => add_walked(alloc, line, link, &live, given),
        Err(_) => line.push_str("references"),
    }
}

/// The same of any link.
fn add_checked(
    alloc: Global,
    line: &mut String,
    link: &LinkInput,
    given: Given<'_>,
) -> Result<(), AllocError> {
    match check_link(link) {
        Ok(()) => add_live(alloc, line, link, given),
        Err(fault) => write!(line, "no good link: {fault}"),
    }
}

/// The same of a link that there is.
fn add_found(
    alloc: Global,
    line: &mut String,
    link: &Result<LinkInput, InputError>,
    given: Given<'_>,
) -> Result<(), AllocError> {
    match link {
        Ok(link) => add_checked(alloc, line, link, given),
        Err(error) => write!(line, "no link: {error}"),
    }
}

/// The same of the link that a text stands for.
fn add_read(
    alloc: Global,
    line: &mut String,
    text: &str,
    given: Given<'_>,
) -> Result<(), AllocError> {
    let link = read_link(alloc, text.as_bytes());
    add_found(alloc, line, &link, given)
}

/// The numbers that a word tells, none where it is `-`.
fn listed(alloc: Global, word: &str) -> Result<Vec<u64>, AllocError> {
    if word == "-" {
        Ok(Vec::new(alloc))
    } else {
        numbers_of(alloc, word)
    }
}

/// Adds edges, and what comes of redirects, by what a row tells.
pub fn add_edged(alloc: Global, line: &mut String, row: &str) -> Result<(), AllocError> {
    let (told, text) = row.split_once(" {").unwrap_or((row, ""));
    let mut words = told.split_whitespace();
    let headers = words.next().unwrap_or("").parse::<u64>().unwrap_or(0);
    let sizes = listed(alloc, words.next().unwrap_or("-"))?;
    let active = listed(alloc, words.next().unwrap_or("-"))?;
    let text = format!(in alloc; "{{{text}")?;
    let given = Given {
        headers,
        sizes: &sizes,
        active: &active,
    };
    add_read(alloc, line, text.as_str(), given)
}

#[test]
fn symbols_stand_at_edges(rt: HostRuntime) -> Result<(), Fail> {
    expect_rows(&rt, rt.alloc(), Asked::Placement(OfPlacement::Edged), EDGES)
}

#[test]
fn redirects_come_to_their_values(rt: HostRuntime) -> Result<(), Fail> {
    expect_rows(
        &rt,
        rt.alloc(),
        Asked::Placement(OfPlacement::Edged),
        REDIRECTS,
    )
}
