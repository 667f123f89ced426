//! A line of text that tells things, and that it is the wanted one.

use std::alloc::Global;
use std::fmt::{Debug, Display};
use std::io::Eprint;

/// Why a test fails.
#[derive(Clone, Copy, Debug)]
pub enum Failed {
    /// Memory ran out before all was told.
    NoMemory,
    /// Something else is told than is wanted; both were printed.
    Told,
}

/// A line of told things. Where memory runs out it takes no more, and is none that is wanted: so what tells things can't fail,
/// and only who wants a line looks whether it is whole.
#[derive(Drop)]
pub struct Line {
    text: String,
    is_whole: bool,
}

impl Line {
    /// Nothing is told.
    pub fn new(alloc: Global) -> Line {
        Line {
            text: String::new(alloc),
            is_whole: true,
        }
    }

    /// Adds a value; what `write!` calls.
    pub fn write_fmt<D: Display + Drop>(&mut self, value: D) {
        if self.is_whole {
            self.is_whole = self.text.write_fmt(value).is_ok();
        }
    }

    /// Adds a text.
    pub fn push_str(&mut self, text: &str) {
        if self.is_whole {
            self.is_whole = self.text.push_str(text).is_ok();
        }
    }

    /// Adds a word, and in quotes what another line tells.
    pub fn add_line(&mut self, word: &str, other: &Line) {
        self.add(word, &other.text);
        self.is_whole = self.is_whole && other.is_whole;
    }

    /// Adds a space, unless nothing is told yet.
    pub fn add_space(&mut self) {
        if !self.text.is_empty() {
            self.push_str(" ");
        }
    }

    /// Adds a comma and a space, unless nothing is told yet.
    pub fn add_comma(&mut self) {
        if !self.text.is_empty() {
            self.push_str(", ");
        }
    }

    /// Adds a word and a value, behind a space where it isn't empty.
    pub fn add<T: Debug>(&mut self, word: &str, value: &T) {
        self.add_space();
        write!(self, "{word} {value:?}");
    }

    /// Adds a word and a value that is made, or notes that memory ran out for it.
    pub fn add_made<T: Debug, E>(&mut self, word: &str, made: &Result<T, E>) {
        match made {
            Ok(value) => self.add(word, value),
            Err(_) => self.run_out(),
        }
    }

    /// Notes that memory ran out where something was to be told.
    pub fn run_out(&mut self) {
        self.is_whole = false;
    }

    /// Wants this text, told for that; prints what is told where it is another.
    pub fn expect<R: Eprint>(&self, rt: &R, of: &str, want: &str) -> Result<(), Failed> {
        let told = self.text.as_str();
        if !self.is_whole {
            Err(Failed::NoMemory)
        } else if told == want {
            Ok(())
        } else {
            let _ = rt.eprintln(format_args!("for {of}\n  told: {told:?}\nwanted: {want:?}"));
            Err(Failed::Told)
        }
    }
}
