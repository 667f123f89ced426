//! Texts cut at a byte.

ghost use Rattle.std.specs.Prelude.{◌≡◌, ℕ, ◌<◌, ◌≤◌, ◌∷◌, length, option_copied, IfSome};
ghost use Rattle.std.specs.List.{position, slice_split};
ghost use Rattle.lk_map.specs.Cutting.{is_byte, parts_left};

use memchr::memchr;

/// What stands before a place, or all where there is none, and what stands behind it. Where the place is that of the first of some bytes,
/// these are the text's first part and the rest.
#[tactic(auto, using(crate::proofs::Cuts::cut_at, crate::proofs::Cuts::cut_nowhere))]
fn cut_at(text: &[u8], place: Option<usize>) -> (&[u8], Option<&[u8]>)
    requires { IfSome place (λ k. k < length text.now) }
    ensures parts { (byte : ℕ) → place ≡ position (is_byte byte) text.now → slice_split (is_byte byte) text.now ≡ result.0.now ∷ parts_left byte (option_copied result.1) }
    ensures shorter { IfSome result.1 (λ rest. length rest.now < length text.now) }
{
    match place {
        Some(place) => (&text[..place], Some(&text[place + 1..])),
        None => (text, None),
    }
}

/// Where the first blank stands. Words are short, so each byte is looked at in its turn.
#[tactic(auto, using(crate::proofs::Cuts::is_within))]
fn place_of_blank(line: &[u8]) -> Option<usize>
    ensures is { result ≡ position (is_byte 32) line.now }
    ensures within { IfSome result (λ k. k < length line.now) }
{
    line.iter().position(|x| *x == b' ')
}

/// Where the first line feed stands.
#[tactic(auto, using(crate::proofs::Cuts::is_first, crate::proofs::Cuts::is_within))]
fn place_of_line_feed(text: &[u8]) -> Option<usize>
    ensures is { result ≡ position (is_byte 10) text.now }
    ensures within { IfSome result (λ k. k < length text.now) }
{
    memchr(b'\n', text)
}

/// The first word of a line, up to its first blank, and what stands behind that.
pub fn cut_word(line: &[u8]) -> (&[u8], Option<&[u8]>)
    ensures parts { slice_split (is_byte 32) line.now ≡ result.0.now ∷ parts_left 32 (option_copied result.1) }
    ensures shorter { IfSome result.1 (λ rest. length rest.now < length line.now) }
{
    cut_at(line, place_of_blank(line))
}

/// The first line of a text, up to its first line feed, and what stands behind that.
pub fn cut_line(text: &[u8]) -> (&[u8], Option<&[u8]>)
    ensures parts { slice_split (is_byte 10) text.now ≡ result.0.now ∷ parts_left 10 (option_copied result.1) }
    ensures shorter { IfSome result.1 (λ rest. length rest.now < length text.now) }
{
    cut_at(text, place_of_line_feed(text))
}
