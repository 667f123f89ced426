//! A line of the report, made from its end to its front, so that digits come in the order in which they are computed. It is
//! added to the report as one piece: lines are many, and pieces of a line several times as many.

ghost use Rattle.std.specs.Prelude.{◌≡◌, ◌++◌, ◌+◌, ◌<◌, ◌≤◌, false, drop, length};
ghost use Rattle.std.specs.Fmt.{digit_glyph};
ghost use Rattle.lk_line.specs.Hexadecimal.{hexadecimal};

use itoa::write_digits;
use std::alloc::AllocError;
use std::marker::Model;
use std::str::from_utf8_unchecked;

/// Bytes that a line may have.
pub const ROOM: usize = 192;

/// A line, as far as it is made: the bytes at its end. Contracts see those.
#[derive(Drop)]
pub struct Line {
    room: [u8; ROOM],
    /// How much of the room is free.
    free: usize,
}

impl Model for Line {
    ghost use Rattle.std.specs.Prelude.{ℕ, ◌≤◌, List, drop};
    ghost use Rattle.std.specs.Str.{IsUtf8};
    ghost use Rattle.lk_line.specs.declared.line.TheConstants.{ROOM};

    ghost Value = { List ℕ };

    ghost view = { λ a. drop a.free a.room };

    ghost invariant = { λ a. (a.free ≤ ROOM) × IsUtf8 (drop a.free a.room) };
}

impl Line {
    ghost use Rattle.std.specs.Prelude.{◌≡◌, ◌+◌, ◌≤◌, [], ◌++◌, length, decimal, OnOk, string_bytes};
    ghost use Rattle.lk_line.specs.declared.line.TheConstants.{ROOM};
    ghost use Rattle.lk_line.specs.Hexadecimal.{hexadecimal};

    /// Nothing yet.
    pub fn new() -> Line
        ensures { result ≡ [] }
    {
        Line {
            room: [0; ROOM],
            free: ROOM,
        }
    }

    /// Puts a text in front.
    pub fn put(&mut self, text: &str)
        requires { length self.old + length text.now ≤ ROOM }
        ensures value { self.new ≡ text.now ++ self.old }
        ensures length { length self.new ≡ length self.old + length text.now }
    {
        self.free = copy_in(text.as_bytes(), &mut self.room, self.free);
    }

    /// Puts a number in front, in decimal.
    pub fn put_decimal(&mut self, number: u64)
        requires { length self.old + 20 ≤ ROOM }
        ensures value { self.new ≡ decimal number ++ self.old }
        ensures length { length self.new ≤ length self.old + 20 }
    {
        self.free = write_digits(number, &mut self.room, self.free);
    }

    /// Puts a number in front, in hexadecimal.
    pub fn put_hexadecimal(&mut self, number: u64)
        requires { length self.old + 64 ≤ ROOM }
        ensures value { self.new ≡ hexadecimal number ++ self.old }
        ensures length { length self.new ≤ length self.old + 16 }
    {
        self.free = write_hexadecimal(number, &mut self.room, self.free);
    }

    /// Adds the line to a text.
    pub fn add_to(&self, text: &mut String) -> Result<(), AllocError>
        ensures { OnOk result (string_bytes text.new ≡ string_bytes text.old ++ self.now) }
    {
        text.push_str(unsafe { from_utf8_unchecked(&self.room[self.free..]) })
    }
}

/// Writes bytes so that they end before `end`, and tells where they begin.
fn copy_in(bytes: &[u8], room: &mut [u8; ROOM], end: usize) -> usize
    requires low { length bytes.now ≤ end }
    requires high { end ≤ ROOM }
    ensures start { result + length bytes.now ≡ end }
    ensures value { drop result room.new ≡ bytes.now ++ drop end room.old }
{
    let start = end - bytes.len();
    room[start..end].copy_from_slice(bytes);
    start
}

/// Writes the hexadecimal digits of a number so that they end before `end`, and tells where they begin. A number may have 64
/// digits here, though none has more than 16.
fn write_hexadecimal(number: u64, room: &mut [u8; ROOM], end: usize) -> usize
    requires low { 64 ≤ end }
    requires high { end ≤ ROOM }
    ensures within { result ≤ end }
    ensures value { drop result room.new ≡ hexadecimal number ++ drop end room.old }
{
    let base = end - 64;
    let mut left = 64;
    let mut rest = number;
    while left > 0 {
        left -= 1;
        room[base + left] = hexadecimal_digit(rest % 16);
        rest /= 16;
        if rest == 0 {
            return base + left;
        }
    }
    base
}

/// A digit.
fn hexadecimal_digit(digit: u64) -> u8
    requires { digit < 16 }
    ensures { result ≡ digit_glyph false digit }
{
    let digit = digit as u8;
    if digit < 10 {
        b'0' + digit
    } else {
        b'a' + (digit - 10)
    }
}
