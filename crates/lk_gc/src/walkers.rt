//! How many workers look for what is reached.
//!
//! A worker goes through a list of asks once for each unit that asks for it; a walk on one thread goes through it for the first one alone.
//! Where a long list is shared by many units, workers would take the product of the two numbers, so where a quick look can't rule that
//! out 1 is answered at most, of which no clause tells.

ghost use Rattle.std.specs.Prelude.{◌≡◌, ◌≤◌, ◌⊎◌, min};

use lk_link::{Candidates, InputFile, InputSections, InputSymbol, LinkInput};

/// `walkers` answers no more than these.
pub const MOST_WORKERS: u32 = 64;

/// A list that so many units at most share, or that has so many items at most, counts as short: workers then take at most so many times
/// what one thread takes.
const SHORT: usize = 64;

/// How many workers look for what is reached of a link, where so many are asked for: these, but 64 at most; or 1 at most, where many
/// units may share a long list of asks. Which of both it is no clause says. Nor does one say how much it looks at: each file at most
/// once, and symbols and sections of those whose lists may be long. Takes no memory.
pub fn walkers(link: &LinkInput, workers: u32) -> u32
    ensures few { result ≤ 64 }
    ensures asked { result ≤ workers }
    ensures some { 1 ≤ workers → 1 ≤ result }
    ensures either { (result ≡ min workers 64) ⊎ (result ≡ min workers 1) }
{
    if shares_long_lists(link) {
        workers.min(1)
    } else {
        workers.min(MOST_WORKERS)
    }
}

/// Whether more than 64 units may ask for lists longer than 64: the members of a section group do, symbols at edges of output sections
/// with so many candidates in their file, and scripts, each for what the location counter's expressions refer to, however little that is.
fn shares_long_lists(link: &LinkInput) -> bool {
    let mut scripts: usize = 0;
    for group in link.groups.as_slice() {
        for file in group.as_slice() {
            if file.kind.is_script() {
                scripts = scripts.saturating_add(1);
            }
            if scripts > SHORT || has_long_lists(file) {
                return true;
            }
        }
    }
    false
}

/// Whether units of a file may share a long list among themselves.
fn has_long_lists(file: &InputFile) -> bool {
    has_long_group(&file.sections)
        || (file.kind.is_synthetic() && has_long_edges(&file.candidates, file.symbols.as_slice()))
}

/// Whether a section group of a file is long. A file with no more sections than that has none.
fn has_long_group(sections: &InputSections) -> bool {
    if sections.len() <= SHORT {
        return false;
    }
    for section in sections.as_slice() {
        if let Some(group) = section.group {
            if sections.members(group).len() > SHORT {
                return true;
            }
        }
    }
    false
}

/// Whether many symbols of a file stand at edges of output sections that have long lists of candidates there.
fn has_long_edges(candidates: &Candidates, symbols: &[InputSymbol]) -> bool {
    if candidates.len() <= SHORT {
        return false;
    }
    let mut askers: usize = 0;
    for symbol in symbols {
        if let Some(output) = symbol.at.edge_of() {
            if candidates.of(output).len() > SHORT {
                askers = askers.saturating_add(1);
            }
        }
    }
    askers > SHORT
}
