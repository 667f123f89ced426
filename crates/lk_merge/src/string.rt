//! Pieces of input sections, with their hashes.

ghost use Rattle.std.specs.Prelude.{◌≡◌, ◌++◌, ◌∷◌, [], Some, None, Contains, MatchOption, if◌then◌else◌};
ghost use Rattle.std.specs.Cmp.Lexicographic.{nat_list_eq_equiv};
ghost use Rattle.std.specs.Cmp.{partial_equiv_from_equiv, on_per, on_equiv};
ghost use Rattle.std.specs.Hash as fed;
ghost use Rattle.std.specs.Str.{bytes_eq, is_utf8};
ghost use Rattle.lk_merge.specs.Hash.{fnv64};
ghost use Rattle.lk_merge.specs.Pieces.{IsString};

use crate::hash::{Fnv64, PieceHash};
use memchr::memchr;
use std::fmt;
use std::hash::{Hash, Hasher};

/// A piece of an input section: a string with its zero byte, or a constant. Its hash stands beside the bytes, so that each
/// byte is hashed once (libwild: `PreHashed<MergeString>`). Compares as the bytes.
#[derive(Clone, Copy)]
pub struct MergeString<'data> {
    bytes: &'data [u8],
    hash: u64,
    ghost hashed: { hash ≡ fnv64 bytes.now },
}

impl<'data> MergeString<'data> {
    /// Takes a string from some data: the bytes up to the first zero byte, and that one. None where there is no zero byte;
    /// the data then stay as they are (libwild: `MergeString::take_string_hashed`).
    pub fn take_string_hashed(source: &mut &'data [u8]) -> Option<MergeString<'data>>
        ensures taken { MatchOption result ((¬ Contains source.old.now 0) × (source.new.now ≡ source.old.now))
            (λ s. IsString s.bytes.now × (source.old.now ≡ s.bytes.now ++ source.new.now)) }
    {
        let last = memchr(0, *source)?;
        let (mut bytes, rest) = source.split_at(last + 1);
        *source = rest;
        Some(MergeString::take_hashed(&mut bytes))
    }

    /// Takes all of some data as one piece (libwild: `MergeString::take_hashed`).
    pub fn take_hashed(source: &mut &'data [u8]) -> MergeString<'data>
        ensures bytes { result.bytes.now ≡ source.old.now }
        ensures rest { source.new.now ≡ [] }
    {
        let bytes = *source;
        *source = &[];
        MergeString {
            bytes,
            hash: Fnv64.hash(bytes),
        }
    }

    /// Its bytes, lent by what it was taken from.
    pub fn as_bytes(self) -> &'data [u8]
        ensures { result.now ≡ self.entry.bytes.now }
    {
        self.bytes
    }

    /// The hash of its bytes.
    pub fn hash_value(self) -> u64
        ensures { result ≡ fnv64 self.entry.bytes.now }
    {
        self.hash
    }
}

impl<'data> PartialEq for MergeString<'data> {
    ghost eq = { λ a b. bytes_eq a.bytes.now b.bytes.now };

    ghost laws = { on_per (λ a. a.bytes.now) (partial_equiv_from_equiv nat_list_eq_equiv) };

    fn eq(&self, other: &MergeString<'data>) -> bool {
        self.hash == other.hash && self.bytes == other.bytes
    }
}

impl<'data> Eq for MergeString<'data> {
    ghost laws = { on_equiv (λ a. a.bytes.now) nat_list_eq_equiv };
}

impl<'data> Hash for MergeString<'data> {
    ghost use Rattle.std.proofs.Common.{ap};
    ghost use Rattle.std.specs.Cmp.Lexicographic.{bytes_decides};

    ghost hash_input = { λ a. fed.u64 (fnv64 a.bytes.now) };

    ghost respects_eq = { λ a b h. ap (λ bytes. fed.u64 (fnv64 bytes)) ((bytes_decides a.bytes.now b.bytes.now).0 h) };

    fn hash<H: Hasher>(&self, state: &mut H) {
        state.write_u64(self.hash);
    }
}

/// As text; bytes that aren't are shown as U+FFFD, one for each longest part of a character.
impl<'data> fmt::Display for MergeString<'data> {
    ghost output = { λ s. if is_utf8 s.bytes.now then Some s.bytes.now else None };

    fn fmt<W: fmt::Write>(&self, f: &mut fmt::Formatter<W>) -> fmt::Result {
        match std::str::from_utf8(self.bytes) {
            Ok(text) => f.write_str(text),
            Err(_) => write_lossy(self.bytes, f),
        }
    }
}

/// Writes some bytes as text, with U+FFFD for what isn't text.
fn write_lossy<W: fmt::Write>(bytes: &[u8], f: &mut fmt::Formatter<W>) -> fmt::Result {
    for chunk in bytes.utf8_chunks() {
        f.write_str(chunk.valid())?;
        if !chunk.invalid().is_empty() {
            f.write_char('\u{FFFD}')?;
        }
    }
    Ok(())
}
