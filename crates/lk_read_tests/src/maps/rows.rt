//! What rows stand for, and that the answers are theirs.
//!
//! A row is a change of a report of three sections, and behind an arrow what is told of the changed text. `3=X` puts X in the place of line 3,
//! with a line feed for each `|`, and with no X leaves the line out; several have a `;` between. `%09` is the byte 9, and `~` at the end of a
//! line takes its line feed away. The word `nothing` is a text without bytes. Told are `ok` with the lines of sections and segments, `not` with
//! the first line where no map goes on, or a fault with its lines.

use lk_map::{MapError, MapFault, MapText, check_map, read_map};
use lk_test_rows::{Asks, Line};
use std::alloc::{AllocError, Global};

/// The report of three sections in one segment.
const REPORT: &str = "layout
section 0 index 0 mem 0x1000 8 file 0x0 8 align 8 lma 0x1000 attrs 1
section 1 index 1 mem 0x1008 7 file 0x8 7 align 1 lma 0x1008 attrs 1
section 2 index 2 mem 0x1010 16 file 0xf 0 align 16 lma 0x1010 attrs 17
part 0 mem 0x1000 8 file 0x0 8 align 8
part 1 mem 0x1008 7 file 0x8 7 align 1
part 2 mem 0x1010 16 file 0xf 0 align 16
segment 0 mem 0x1000 32 file 0x0 15 align 16
live 1 0 0 0x1000 8
live 1 0 1 0x1008 7
live 1 0 2 0x1010 16
entry -
end";

/// What stands in the place of a line, if it is changed.
fn change_of<'a>(changes: &'a str, line: usize) -> Option<&'a str> {
    for change in changes.split(';') {
        let (number, written) = change.split_once('=').unwrap_or(("", ""));
        if number.trim().parse::<usize>().unwrap_or(0) == line {
            return Some(written);
        }
    }
    None
}

/// What a byte counts as a digit in base 16.
fn digit_of(byte: u8) -> u8 {
    match byte {
        b'0'..=b'9' => byte - b'0',
        b'a'..=b'f' => byte - b'a' + 10,
        _ => 0,
    }
}

/// Adds bytes as they are written here, and a line feed.
fn add_line(text: &mut Vec<u8>, written: &[u8]) -> Result<(), AllocError> {
    let mut digits_to_come = 0u8;
    let mut value = 0u8;
    let mut is_ended = true;
    for byte in written {
        if digits_to_come > 0 {
            value = value.wrapping_mul(16).wrapping_add(digit_of(*byte));
            digits_to_come -= 1;
            if digits_to_come == 0 {
                text.push(value)?;
            }
        } else {
            match *byte {
                b'%' => digits_to_come = 2,
                b'|' => text.push(b'\n')?,
                b'~' => is_ended = false,
                other => text.push(other)?,
            }
        }
    }
    if is_ended {
        text.push(b'\n')?;
    }
    Ok(())
}

/// The text that changes make of the report.
fn changed(alloc: Global, changes: &str) -> Result<Vec<u8>, AllocError> {
    let mut text = Vec::new(alloc);
    if changes.trim() == "nothing" {
        return Ok(text);
    }
    let mut number = 1usize;
    for line in REPORT.split('\n') {
        match change_of(changes, number) {
            Some("") => {}
            Some(written) => add_line(&mut text, written.as_bytes())?,
            None => add_line(&mut text, line.as_bytes())?,
        }
        number = number.wrapping_add(1);
    }
    Ok(text)
}

/// Tells what a check comes to.
fn tell_checked(line: &mut Line, map: &MapText, checked: Result<(), MapFault>) {
    let sections = map.sections.len();
    let segments = map.segments.len();
    match checked {
        Ok(()) => write!(line, "ok {sections} {segments}"),
        Err(MapFault::Overflow { line: at }) => write!(line, "overflow {at}"),
        Err(MapFault::MemOverlap { a, b }) => write!(line, "memory {a} {b}"),
        Err(MapFault::FileOverlap { a, b }) => write!(line, "file {a} {b}"),
        Err(MapFault::NoSegment { line: at }) => write!(line, "outside {at}"),
        Err(MapFault::NoMemory) => line.run_out(),
    }
}

/// Tells what a text is, or where it is no map.
fn tell_text(alloc: Global, line: &mut Line, text: &[u8]) {
    match read_map(alloc, text) {
        Ok(map) => tell_checked(line, &map, check_map(alloc, &map)),
        Err(MapError::NotMap { line: at }) => write!(line, "not {at}"),
        Err(MapError::NoMemory) => line.run_out(),
    }
}

/// What is told of maps.
#[derive(Clone, Copy)]
pub struct OfMaps;

impl<R> Asks<R> for OfMaps {
    fn tell(&self, _rt: &R, alloc: Global, line: &mut Line, changes: &str) {
        match changed(alloc, changes) {
            Ok(text) => tell_text(alloc, line, text.as_slice()),
            Err(_) => line.run_out(),
        }
    }
}
