//! Ends of runs, as rows and reports tell them.

use std::alloc::{AllocError, Global};
use std::str;

/// More than any text here takes.
pub const ROOM: usize = 65536;

/// The words of a line.
pub fn words_of(alloc: Global, line: &str) -> Result<Vec<String>, AllocError> {
    let mut words = Vec::new(alloc);
    for word in line.split_whitespace() {
        words.push(String::from_str(alloc, word)?)?;
    }
    Ok(words)
}

/// A status, and the text that a sink has taken, without the end of its last line.
pub fn told_end(alloc: Global, status: Option<u8>, written: &[u8]) -> Result<String, AllocError> {
    let text = str::from_utf8(written).unwrap_or("no text");
    let text = text.strip_suffix('\n').unwrap_or("no line");
    match status {
        Some(code) => format!(in alloc; "{code} {text}"),
        None => format!(in alloc; "no end"),
    }
}

/// A block without the remark above it.
pub fn without_remark(block: &'static str) -> &'static str {
    match block.split_once('\n') {
        Some((remark, rest)) if remark.starts_with('#') => rest,
        _ => block,
    }
}
