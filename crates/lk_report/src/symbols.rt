//! The lines of the report on symbols: one after the other, or by workers, each of which makes those of symbols that follow each other.

ghost use Rattle.std.specs.Prelude.{◌≡◌, ◌+◌, ◌<◌, ◌≤◌, ◌++◌, string_bytes, length, vec_len, IfOk};
ghost use Rattle.lk_line.specs.declared.line.TheConstants.{ROOM};
ghost use Rattle.lk_report.specs.Report.{address_text, each, index_text, symbol_line, symbol_text};
ghost use Rattle.lk_report.specs.SymbolParts.{AreMade, IsMade, lines_from, part_start};

use lk_line::{Line, ROOM};
use lk_link::Resolution;
use lk_resolution_list::SymbolResolutions;
use std::alloc::{AllocError, Global};
use std::thread::{Threads, map_indices};

/// Bytes that the line of a symbol without entries mostly has room in.
const SYMBOL_LINE: usize = 48;

/// Bytes that an entry's address or number in that line mostly has room in.
const ENTRY_ROOM: usize = 10;

/// How many bytes the lines of the symbols from a number up to another mostly have.
pub(crate) fn symbols_room(resolutions: &SymbolResolutions, from: usize, to: usize) -> usize {
    let mut room: usize = 0;
    for number in from..to {
        room = room.saturating_add(symbol_room(resolutions.nth(number)));
    }
    room
}

/// How many bytes the line of a symbol mostly has.
fn symbol_room(resolution: Option<Resolution>) -> usize {
    match resolution {
        Some(resolution) => {
            SYMBOL_LINE
                + entry_room(resolution.got.is_some())
                + entry_room(resolution.plt.is_some())
                + entry_room(resolution.dynamic.is_some())
        }
        None => 0,
    }
}

/// How many bytes an entry adds to that.
fn entry_room(has_entry: bool) -> usize
    ensures { result ≤ 10 }
{
    if has_entry { ENTRY_ROOM } else { 0 }
}

/// The lines of the symbols with a resolution, by number.
pub(crate) fn write_symbols(
    text: &mut String,
    resolutions: &SymbolResolutions,
) -> Result<(), AllocError>
    ensures { IfOk result (λ _. string_bytes text.new ≡ string_bytes text.old ++ each symbol_text 0 resolutions.now) }
{
    write_between(text, resolutions, 0, resolutions.len())?;
    Ok(())
}

/// The same for the symbols from a number up to another: behind them those from there on are those that were to come.
fn write_between(
    text: &mut String,
    resolutions: &SymbolResolutions,
    from: usize,
    to: usize,
) -> Result<(), AllocError>
    requires order { from ≤ to }
    requires there { to ≤ length resolutions.now }
    ensures { IfOk result (λ _. string_bytes text.new ++ lines_from resolutions.now to ≡ string_bytes text.old ++ lines_from resolutions.now from) }
{
    for number in from..to {
        write_symbol(text, number, resolutions.nth(number))?;
    }
    Ok(())
}

/// Where a part begins, if so many items are cut into so many parts; behind the last one all items end.
fn part_start(count: usize, parts: usize, part: usize) -> usize
    requires { 0 < parts }
    ensures { result ≡ part_start count parts part }
{
    if part < parts {
        part.saturating_mul(count / parts).min(count)
    } else {
        count
    }
}

/// The lines of a part of the symbols.
fn part_text(
    alloc: Global,
    resolutions: &SymbolResolutions,
    parts: usize,
    part: usize,
) -> Result<String, AllocError>
    requires { part < parts }
    ensures { IsMade resolutions.now parts part result }
{
    let from = part_start(resolutions.len(), parts, part);
    let to = part_start(resolutions.len(), parts, part + 1);
    let room = symbols_room(resolutions, from, to);
    let mut text = String::with_capacity(alloc, room)?;
    write_between(&mut text, resolutions, from, to)?;
    Ok(text)
}

/// The lines of each part of the symbols, made by as many workers.
pub(crate) fn part_texts<R: Threads + Sync>(
    rt: &R,
    alloc: Global,
    resolutions: &SymbolResolutions,
    parts: usize,
) -> Result<Vec<Result<String, AllocError>>, AllocError>
    ensures count { IfOk result (λ texts. vec_len texts ≡ parts) }
    ensures each { IfOk result (λ texts. AreMade resolutions.now parts texts.items) }
{
    map_indices(
        rt,
        alloc,
        parts,
        &|part: usize| -> Result<String, AllocError>
            requires { part < parts }
            ensures { IsMade resolutions.entry.now parts part result }
        { part_text(alloc, resolutions, parts, part) },
    )
}

/// How many bytes the lines of parts have.
pub(crate) fn parts_room(parts: &[Result<String, AllocError>]) -> usize {
    let mut room: usize = 0;
    for part in parts {
        if let Ok(text) = part {
            room = room.saturating_add(text.len());
        }
    }
    room
}

/// Adds the lines of all parts, in their order, if no part lacked memory.
pub(crate) fn add_parts(
    text: &mut String,
    resolutions: &SymbolResolutions,
    parts: Vec<Result<String, AllocError>>,
) -> Result<(), AllocError>
    requires some { 0 < vec_len parts }
    requires parts { AreMade resolutions.now (vec_len parts) parts.items }
    ensures { IfOk result (λ _. string_bytes text.new ≡ string_bytes text.old ++ each symbol_text 0 resolutions.now) }
{
    for part in parts {
        let part = part?;
        text.push_str(part.as_str())?;
    }
    Ok(())
}

/// The line of a symbol that has a resolution.
#[tactic(auto, unfolding(crate::specs::Report::symbol_text))]
fn write_symbol(
    text: &mut String,
    number: usize,
    resolution: Option<Resolution>,
) -> Result<(), AllocError>
    ensures { IfOk result (λ _. string_bytes text.new ≡ string_bytes text.old ++ symbol_text number resolution) }
{
    match resolution {
        Some(resolution) => write_symbol_line(text, number, resolution),
        None => Ok(()),
    }
}

/// The line of a symbol with this resolution: its value and flags, where its entries stand in `got` and `plt`, and its number among
/// dynamic symbols.
#[tactic(auto, unfolding(crate::specs::Report::symbol_line))]
fn write_symbol_line(
    text: &mut String,
    number: usize,
    resolution: Resolution,
) -> Result<(), AllocError>
    ensures { IfOk result (λ _. string_bytes text.new ≡ string_bytes text.old ++ symbol_line number resolution) }
{
    let mut line = Line::new();
    line.put("\n");
    put_index(&mut line, resolution.dynamic);
    line.put(" dyn ");
    put_address(&mut line, resolution.plt);
    line.put(" plt ");
    put_address(&mut line, resolution.got);
    line.put(" got ");
    line.put_decimal(u64::from(resolution.flags.0));
    line.put(" ");
    line.put_hexadecimal(resolution.raw_value);
    line.put(" 0x");
    line.put_decimal(number as u64);
    line.put("symbol ");
    line.add_to(text)
}

/// Puts an address in front of a line, or `-` for none.
fn put_address(line: &mut Line, address: Option<u64>)
    requires { length line.old + 66 ≤ ROOM }
    ensures value { line.new ≡ address_text address ++ line.old }
    ensures length { length line.new ≤ length line.old + 18 }
{
    match address {
        None => line.put("-"),
        Some(address) => {
            line.put_hexadecimal(address);
            line.put("0x");
        }
    }
}

/// Puts an index in front of a line, or `-` for none.
fn put_index(line: &mut Line, index: Option<u32>)
    requires { length line.old + 20 ≤ ROOM }
    ensures value { line.new ≡ index_text index ++ line.old }
    ensures length { length line.new ≤ length line.old + 20 }
{
    match index {
        None => line.put("-"),
        Some(index) => line.put_decimal(u64::from(index)),
    }
}
