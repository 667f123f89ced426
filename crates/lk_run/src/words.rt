//! The words of the command line.

ghost use Rattle.std.specs.Prelude.{◌≡◌, ℕ, ◌≤◌, ◌↔◌, List, drop, map, string_bytes, IfOk, IfSome, IsTrue};
ghost use Rattle.std.specs.Vec.Iter.{into_iter_items};
ghost use Rattle.lk_run.specs.Steps.{IsPadded};
ghost use Rattle.lk_run.specs.Words.{IsCommand, command_of, gen_with, number_in, reads, seed_of, short_of, size_of, usage, why_with, workers_for, workers_of};
ghost use Rattle.lk_run.specs.declared.words.Command.{Command};

use lk_link::FileId;
use std::alloc::{AllocError, Global};
use std::env::Args;

/// The most workers that can be asked for.
pub const MOST_WORKERS: u8 = 64;

/// The most objects that a generated link can be asked for.
pub const MOST_OBJECTS: u32 = 100_000;

/// What the program is asked to do.
#[derive(Clone, Copy, Debug, PartialEq, Eq)]
pub enum Command {
    /// Lay out the link that the source holds, with so many workers.
    Layout(u8),
    /// Lay out the link that a seed and a number of objects give. Nothing is read.
    Gen { seed: u64, size: u32 },
    /// Tell why the input section with this file and index is kept, in the link that the source holds.
    Why { file: FileId, index: u32 },
    /// Check the map that the source holds.
    Check,
    /// Write the image of the link that the source holds, which so many workers lay out.
    Image(u8),
}

impl Command {
    /// The number of workers that it asks for; 0 where it leaves no choice.
    pub fn workers(self) -> u8
        ensures { result ≡ workers_for self }
    {
        match self {
            Command::Layout(workers) | Command::Image(workers) => workers,
            Command::Gen { .. } | Command::Why { .. } | Command::Check => 0,
        }
    }

    /// Whether it reads the source.
    pub fn reads(self) -> bool
        ensures { result ≡ reads self }
    {
        match self {
            Command::Layout(_) | Command::Why { .. } | Command::Check | Command::Image(_) => true,
            Command::Gen { .. } => false,
        }
    }
}

/// The words of a program that was started with these: all behind the first, which is the program's name.
pub fn words_behind_name(alloc: Global, mut args: Args) -> Result<Vec<String>, AllocError>
    ensures { IfOk result (λ words. words.items ≡ drop 1 (into_iter_items args)) }
{
    let _name = args.next();
    let mut words = Vec::new(alloc);
    for word in args {
        words.push(word)?;
    }
    Ok(words)
}

/// Whether a plus or a needless zero stands in front of a word.
fn is_padded(word: &str) -> bool
    ensures { IsTrue result ↔ IsPadded word.now }
{
    let bytes = word.as_bytes();
    bytes.len() > 1 && (bytes[0] == b'0' || bytes[0] == b'+')
}

/// The number that a word writes, from the least to the most, in decimal, with no sign and no leading zero.
fn read_number(word: &str, least: u64, most: u64) -> Option<u64>
    ensures number { result ≡ number_in least most word.now }
    ensures least { IfSome result (λ number. least ≤ number) }
    ensures most { IfSome result (λ number. number ≤ most) }
{
    if is_padded(word) {
        return None;
    }
    match word.parse::<u64>() {
        Ok(number) if least <= number && number <= most => Some(number),
        _ => None,
    }
}

/// The number of workers that a word writes: 0 to `MOST_WORKERS`.
fn read_workers(word: &str) -> Option<u8>
    ensures { result ≡ workers_of word.now }
{
    match read_number(word, 0, u64::from(MOST_WORKERS)) {
        Some(workers) => Some(workers as u8),
        None => None,
    }
}

/// The number of objects that a word writes: 1 to `MOST_OBJECTS`.
fn read_size(word: &str) -> Option<u32>
    ensures { result ≡ size_of word.now }
{
    match read_number(word, 1, u64::from(MOST_OBJECTS)) {
        Some(size) => Some(size as u32),
        None => None,
    }
}

/// The command `gen` with the seed and the number of objects that two words write.
fn read_gen(seed: &str, size: &str) -> Option<Command>
    ensures { result ≡ gen_with (seed_of seed.now) (size_of size.now) }
{
    let seed = read_number(seed, 0, u64::MAX)?;
    let size = read_size(size)?;
    Some(Command::Gen { seed, size })
}

/// The number that a word writes: 0 to 4,294,967,295.
fn read_short(word: &str) -> Option<u32>
    ensures { result ≡ short_of word.now }
{
    match read_number(word, 0, u64::from(u32::MAX)) {
        Some(number) => Some(number as u32),
        None => None,
    }
}

/// The command `why` with the group, the file and the index that three words write.
fn read_why(group: &str, file: &str, index: &str) -> Option<Command>
    ensures { result ≡ why_with (short_of group.now) (short_of file.now) (short_of index.now) }
{
    let group = read_short(group)?;
    let file = read_short(file)?;
    let index = read_short(index)?;
    Some(Command::Why {
        file: FileId { group, file },
        index,
    })
}

/// The command that these words are; `None` where they are no command.
#[tactic(auto, unfolding(crate::specs::Words::command_of))]
pub fn read_words(words: &[String]) -> Option<Command>
    ensures { result ≡ command_of (map string_bytes words.now) }
{
    match words {
        [verb, workers] if verb.as_str() == "layout" => {
            read_workers(workers.as_str()).map(Command::Layout)
        }
        [verb, seed, size] if verb.as_str() == "gen" => read_gen(seed.as_str(), size.as_str()),
        [verb, group, file, index] if verb.as_str() == "why" => {
            read_why(group.as_str(), file.as_str(), index.as_str())
        }
        [verb] if verb.as_str() == "check" => Some(Command::Check),
        [verb, workers] if verb.as_str() == "image" => {
            read_workers(workers.as_str()).map(Command::Image)
        }
        _ => None,
    }
}

/// What the program says where the words are no command, with its line feed.
pub fn usage_text() -> &'static str
    ensures { result.now ≡ usage }
{
    "usage: lk_program layout N | gen SEED SIZE | why G F I | check | image N\n"
}

/// A law: words are read as a command exactly where they are that command's words. It does nothing.
pub fn command_law()
    ensures { (words : List (List ℕ)) (command : Command) → (command_of words ≡ Some command) ↔ IsCommand words command }
{}
