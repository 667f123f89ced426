//! Lines of a known form, read where they stand in a text. Each field of a form has code of its own, and a line is gone through once, with no
//! search for its end. Only what fits is found: a line of another form is left to be cut off and read as it is defined, and one with a decimal
//! of 20 digits may be. Of the forms that stand more than once, no other is left.

ghost use Rattle.std.specs.Prelude.{◌≡◌, ◌≢◌, ℕ, List, ◌∷◌, ◌++◌, [], true, Option, Some, IfNone, IfSome, MatchOption, codes};
ghost use Rattle.lk_map.specs.Ahead.{Begins, Opens, OpensNot, OpensOnly, Says, SaysNot, SaysSome, Tells};
ghost use Rattle.lk_map.specs.Alike.{kept_sections, kept_segments};
ghost use Rattle.lk_map.specs.Forms.{fields_of, follows};
ghost use Rattle.lk_map.specs.Reading.{value_of};
ghost use Rattle.lk_map.specs.declared.forms.Field.TheVariants as is;
ghost use Rattle.lk_map.specs.declared.forms.Form.TheVariants as form;
ghost use Rattle.lk_map.specs.declared.forms.Word.TheVariants as word;

use crate::forms::{Form, Word, text_of};
use crate::map_text::{SectionLine, SegmentLine};
use crate::numbers::{address_ahead, decimal_ahead};

// ---- a field, and what stands behind it

/// What stands behind a word and its blank.
#[inline(always)]
fn word_then(expected: Word, text: &[u8]) -> Option<&[u8]>
    ensures word { IfSome result (λ rest. Begins 32 text.now rest.now (λ word. value_of (is.Word expected) word ≡ Some [])) }
    ensures found { IfSome result (λ rest. Opens (is.Word expected ∷ []) text.now [] rest.now) }
    ensures none { MatchOption result (OpensNot (is.Word expected ∷ []) text.now) (λ rest. OpensOnly (is.Word expected ∷ []) text.now rest.now) }
{
    let rest = text.strip_prefix(text_of(expected).as_bytes())?;
    if rest.is_empty() || rest[0] != b' ' {
        return None;
    }
    Some(&rest[1..])
}

/// A number in decimal, and what stands behind its blank.
#[inline(always)]
fn number_then(text: &[u8]) -> Option<(u64, &[u8])>
    ensures word { IfSome result (λ found. Begins 32 text.now found.1.now (λ word. value_of is.Number word ≡ Some (Some found.0 ∷ []))) }
    ensures found { IfSome result (λ found. Opens (is.Number ∷ []) text.now (Some found.0 ∷ []) found.1.now) }
    ensures none { MatchOption result (OpensNot (is.Number ∷ []) text.now) (λ found. OpensOnly (is.Number ∷ []) text.now found.1.now) }
{
    let (number, rest) = decimal_ahead(b' ', text)?;
    Some((number, rest))
}

/// The same of the last field of a line, which a line feed ends.
#[inline(always)]
fn last_number(text: &[u8]) -> Option<(u64, &[u8])>
    ensures found { IfSome result (λ found. Says (is.Number ∷ []) text.now (Some found.0 ∷ []) found.1.now) }
    ensures none { IfNone result (SaysNot (is.Number ∷ []) text.now) }
{
    let (number, rest) = decimal_ahead(b'\n', text)?;
    Some((number, rest))
}

/// An address, and what stands behind its blank.
#[inline(always)]
fn address_then(text: &[u8]) -> Option<(u64, &[u8])>
    ensures word { IfSome result (λ found. Begins 32 text.now found.1.now (λ word. value_of is.Address word ≡ Some (Some found.0 ∷ []))) }
    ensures found { IfSome result (λ found. Opens (is.Address ∷ []) text.now (Some found.0 ∷ []) found.1.now) }
    ensures none { MatchOption result (OpensNot (is.Address ∷ []) text.now) (λ found. OpensOnly (is.Address ∷ []) text.now found.1.now) }
{
    let (number, rest) = address_ahead(b' ', text)?;
    Some((number, rest))
}

/// The same of a last field.
#[inline(always)]
fn last_address(text: &[u8]) -> Option<(u64, &[u8])>
    ensures found { IfSome result (λ found. Says (is.Address ∷ []) text.now (Some found.0 ∷ []) found.1.now) }
    ensures none { IfNone result (SaysNot (is.Address ∷ []) text.now) }
{
    let (number, rest) = address_ahead(b'\n', text)?;
    Some((number, rest))
}

/// What stands behind `-` and a given byte.
#[inline(always)]
fn dash_ahead(stop: u8, text: &[u8]) -> Option<&[u8]>
    ensures found { IfSome result (λ rest. Begins stop text.now rest.now (λ word. word ≡ codes "-")) }
    ensures none { IfNone result ((rest : List ℕ) → text.now ≡ codes "-" ++ stop ∷ rest → ⊥) }
{
    if text.len() >= 2 && text[0] == b'-' && text[1] == stop {
        Some(&text[2..])
    } else {
        None
    }
}

/// A number in decimal or `-`, and what stands behind its blank.
#[inline(always)]
fn number_or_none_then(text: &[u8]) -> Option<(Option<u64>, &[u8])>
    ensures word { IfSome result (λ found. Begins 32 text.now found.1.now (λ word. value_of is.NumberOrNone word ≡ Some (found.0 ∷ []))) }
    ensures found { IfSome result (λ found. Opens (is.NumberOrNone ∷ []) text.now (found.0 ∷ []) found.1.now) }
    ensures none { MatchOption result (OpensNot (is.NumberOrNone ∷ []) text.now) (λ found. OpensOnly (is.NumberOrNone ∷ []) text.now found.1.now) }
{
    if let Some(rest) = dash_ahead(b' ', text) {
        return Some((None, rest));
    }
    let (number, rest) = decimal_ahead(b' ', text)?;
    Some((Some(number), rest))
}

/// The same of a last field.
#[inline(always)]
fn last_number_or_none(text: &[u8]) -> Option<(Option<u64>, &[u8])>
    ensures found { IfSome result (λ found. Says (is.NumberOrNone ∷ []) text.now (found.0 ∷ []) found.1.now) }
    ensures none { IfNone result (SaysNot (is.NumberOrNone ∷ []) text.now) }
{
    if let Some(rest) = dash_ahead(b'\n', text) {
        return Some((None, rest));
    }
    let (number, rest) = decimal_ahead(b'\n', text)?;
    Some((Some(number), rest))
}

/// An address or `-`, and what stands behind its blank.
#[inline(always)]
fn address_or_none_then(text: &[u8]) -> Option<(Option<u64>, &[u8])>
    ensures word { IfSome result (λ found. Begins 32 text.now found.1.now (λ word. value_of is.AddressOrNone word ≡ Some (found.0 ∷ []))) }
    ensures found { IfSome result (λ found. Opens (is.AddressOrNone ∷ []) text.now (found.0 ∷ []) found.1.now) }
    ensures none { MatchOption result (OpensNot (is.AddressOrNone ∷ []) text.now) (λ found. OpensOnly (is.AddressOrNone ∷ []) text.now found.1.now) }
{
    if let Some(rest) = dash_ahead(b' ', text) {
        return Some((None, rest));
    }
    let (number, rest) = address_ahead(b' ', text)?;
    Some((Some(number), rest))
}

/// The same of a last field.
#[inline(always)]
fn last_address_or_none(text: &[u8]) -> Option<(Option<u64>, &[u8])>
    ensures found { IfSome result (λ found. Says (is.AddressOrNone ∷ []) text.now (found.0 ∷ []) found.1.now) }
    ensures none { IfNone result (SaysNot (is.AddressOrNone ∷ []) text.now) }
{
    if let Some(rest) = dash_ahead(b'\n', text) {
        return Some((None, rest));
    }
    let (number, rest) = address_ahead(b'\n', text)?;
    Some((Some(number), rest))
}

// ---- lines of sections and segments

/// Where something lies in memory and in the file.
#[derive(Clone, Copy)]
struct Ranges {
    mem_offset: u64,
    mem_size: u64,
    file_offset: u64,
    file_size: u64,
}

/// What the fields from `mem` up to `align` say, if the rest of the line is read, and what stands behind its blank.
#[inline(always)]
fn ranges_then(text: &[u8]) -> Option<(Ranges, &[u8])>
    ensures found { IfSome result (λ found. Opens (is.Word word.Mem ∷ is.Address ∷ is.Number ∷ is.Word word.File ∷ is.Address ∷ is.Number ∷ is.Word word.Align ∷ []) text.now
        (Some found.0.mem_offset ∷ Some found.0.mem_size ∷ Some found.0.file_offset ∷ Some found.0.file_size ∷ []) found.1.now) }
    ensures none { MatchOption result (OpensNot (is.Word word.Mem ∷ is.Address ∷ is.Number ∷ is.Word word.File ∷ is.Address ∷ is.Number ∷ is.Word word.Align ∷ []) text.now)
        (λ found. OpensOnly (is.Word word.Mem ∷ is.Address ∷ is.Number ∷ is.Word word.File ∷ is.Address ∷ is.Number ∷ is.Word word.Align ∷ []) text.now found.1.now) }
{
    let rest = word_then(Word::Mem, text)?;
    let (mem_offset, rest) = address_then(rest)?;
    let (mem_size, rest) = number_then(rest)?;
    let rest = word_then(Word::File, rest)?;
    let (file_offset, rest) = address_then(rest)?;
    let (file_size, rest) = number_then(rest)?;
    let rest = word_then(Word::Align, rest)?;
    let ranges = Ranges {
        mem_offset,
        mem_size,
        file_offset,
        file_size,
    };
    Some((ranges, rest))
}

/// The section of a text's first line, which has this number, and what stands behind the line.
fn section_ahead(line: usize, text: &[u8]) -> Option<(SectionLine, &[u8])>
    ensures found { IfSome result (λ found. Tells line form.Section text.now found.1.now (found.0 ∷ []) []) }
    ensures none { IfNone result (SaysNot (fields_of form.Section) text.now) }
{
    let rest = word_then(Word::Section, text)?;
    let (_, rest) = number_then(rest)?;
    let rest = word_then(Word::Index, rest)?;
    let (_, rest) = number_or_none_then(rest)?;
    let (ranges, rest) = ranges_then(rest)?;
    let (_, rest) = number_then(rest)?;
    let rest = word_then(Word::Lma, rest)?;
    let (_, rest) = address_then(rest)?;
    let rest = word_then(Word::Attrs, rest)?;
    let (attrs, rest) = last_number(rest)?;
    let section = SectionLine {
        line,
        mem_offset: ranges.mem_offset,
        mem_size: ranges.mem_size,
        file_offset: ranges.file_offset,
        file_size: ranges.file_size,
        attrs,
    };
    Some((section, rest))
}

/// The segment.
fn segment_ahead(line: usize, text: &[u8]) -> Option<(SegmentLine, &[u8])>
    ensures found { IfSome result (λ found. Tells line form.Segment text.now found.1.now [] (found.0 ∷ [])) }
    ensures none { IfNone result (SaysNot (fields_of form.Segment) text.now) }
{
    let rest = word_then(Word::Segment, text)?;
    let (_, rest) = number_then(rest)?;
    let (ranges, rest) = ranges_then(rest)?;
    let (_, rest) = last_number(rest)?;
    let segment = SegmentLine {
        line,
        mem_offset: ranges.mem_offset,
        mem_size: ranges.mem_size,
        file_offset: ranges.file_offset,
        file_size: ranges.file_size,
    };
    Some((segment, rest))
}

// ---- other lines, of which nothing is kept: what stands behind a text's first line, if it has the form

fn behind_part(text: &[u8]) -> Option<&[u8]>
    ensures found { IfSome result (λ rest. SaysSome (fields_of form.Part) text.now rest.now) }
    ensures none { IfNone result (SaysNot (fields_of form.Part) text.now) }
{
    let rest = word_then(Word::Part, text)?;
    let (_, rest) = number_then(rest)?;
    let (_, rest) = ranges_then(rest)?;
    let (_, rest) = last_number(rest)?;
    Some(rest)
}

fn behind_live(text: &[u8]) -> Option<&[u8]>
    ensures found { IfSome result (λ rest. SaysSome (fields_of form.Live) text.now rest.now) }
    ensures none { IfNone result (SaysNot (fields_of form.Live) text.now) }
{
    let rest = word_then(Word::Live, text)?;
    let (_, rest) = number_then(rest)?;
    let (_, rest) = number_then(rest)?;
    let (_, rest) = number_then(rest)?;
    let (_, rest) = address_then(rest)?;
    let (_, rest) = last_number(rest)?;
    Some(rest)
}

fn behind_single(text: &[u8]) -> Option<&[u8]>
    ensures found { IfSome result (λ rest. SaysSome (fields_of form.Single) text.now rest.now) }
    ensures none { IfNone result (SaysNot (fields_of form.Single) text.now) }
{
    let rest = word_then(Word::Single, text)?;
    let (_, rest) = number_then(rest)?;
    let (_, rest) = number_then(rest)?;
    let (_, rest) = number_then(rest)?;
    let (_, rest) = last_number(rest)?;
    Some(rest)
}

fn behind_merged(text: &[u8]) -> Option<&[u8]>
    ensures found { IfSome result (λ rest. SaysSome (fields_of form.Merged) text.now rest.now) }
    ensures none { IfNone result (SaysNot (fields_of form.Merged) text.now) }
{
    let rest = word_then(Word::Merged, text)?;
    let (_, rest) = number_then(rest)?;
    let (_, rest) = number_then(rest)?;
    let (_, rest) = number_then(rest)?;
    let (_, rest) = number_then(rest)?;
    let (_, rest) = number_then(rest)?;
    let (_, rest) = last_address(rest)?;
    Some(rest)
}

fn behind_piece(text: &[u8]) -> Option<&[u8]>
    ensures found { IfSome result (λ rest. SaysSome (fields_of form.Piece) text.now rest.now) }
    ensures none { IfNone result (SaysNot (fields_of form.Piece) text.now) }
{
    let rest = word_then(Word::Piece, text)?;
    let (_, rest) = number_then(rest)?;
    let (_, rest) = address_then(rest)?;
    let (_, rest) = last_number(rest)?;
    Some(rest)
}

fn behind_block(text: &[u8]) -> Option<&[u8]>
    ensures found { IfSome result (λ rest. SaysSome (fields_of form.Block) text.now rest.now) }
    ensures none { IfNone result (SaysNot (fields_of form.Block) text.now) }
{
    let rest = word_then(Word::Block, text)?;
    let (_, rest) = number_then(rest)?;
    let (_, rest) = number_then(rest)?;
    let (_, rest) = last_number(rest)?;
    Some(rest)
}

fn behind_thunk(text: &[u8]) -> Option<&[u8]>
    ensures found { IfSome result (λ rest. SaysSome (fields_of form.Thunk) text.now rest.now) }
    ensures none { IfNone result (SaysNot (fields_of form.Thunk) text.now) }
{
    let rest = word_then(Word::Thunk, text)?;
    let (_, rest) = number_then(rest)?;
    let (_, rest) = number_then(rest)?;
    let (_, rest) = last_address_or_none(rest)?;
    Some(rest)
}

fn behind_symbol(text: &[u8]) -> Option<&[u8]>
    ensures found { IfSome result (λ rest. SaysSome (fields_of form.Symbol) text.now rest.now) }
    ensures none { IfNone result (SaysNot (fields_of form.Symbol) text.now) }
{
    let rest = word_then(Word::Symbol, text)?;
    let (_, rest) = number_then(rest)?;
    let (_, rest) = address_then(rest)?;
    let (_, rest) = number_then(rest)?;
    let rest = word_then(Word::Got, rest)?;
    let (_, rest) = address_or_none_then(rest)?;
    let rest = word_then(Word::Plt, rest)?;
    let (_, rest) = address_or_none_then(rest)?;
    let rest = word_then(Word::Dyn, rest)?;
    let (_, rest) = last_number_or_none(rest)?;
    Some(rest)
}

/// What stands behind a text's first line, which has this number, if it has this form, and no section or segment is kept of it.
#[tactic(auto, unfolding(crate::specs::MapText::section_told, crate::specs::MapText::segment_told, crate::specs::Forms::rank, crate::specs::Forms::row_of, crate::specs::Forms::follows))]
fn behind_other(line: usize, other: Form, text: &[u8]) -> Option<&[u8]>
    ensures found { IfSome result (λ rest. Tells line other text.now rest.now [] []) }
    ensures none { IfNone result (other ≢ form.Section → other ≢ form.Segment → follows (Some other) other ≡ true → SaysNot (fields_of other) text.now) }
{
    match other {
        Form::Part => behind_part(text),
        Form::Live => behind_live(text),
        Form::Single => behind_single(text),
        Form::Merged => behind_merged(text),
        Form::Piece => behind_piece(text),
        Form::Block => behind_block(text),
        Form::Thunk => behind_thunk(text),
        Form::Symbol => behind_symbol(text),
        _ => None,
    }
}

// ---- a line of the form of the one before it

/// What is kept of a line.
#[derive(Clone, Copy)]
pub enum Kept {
    Section(SectionLine),
    Segment(SegmentLine),
    Nothing,
}

/// What is kept of a text's first line, which has this number, if it has the form of the line before it; and what stands behind it. In a
/// map another line of that form can stand there. Nothing is found only where the form stands just once, or no such line stands there whose
/// decimals have at most 19 digits.
pub fn line_alike(line: usize, before: Option<Form>, text: &[u8]) -> Option<(Kept, &[u8])>
    ensures found { IfSome result (λ found. (form : Form) × (before ≡ Some form) × Tells line form text.now found.1.now (kept_sections found.0) (kept_segments found.0)) }
    ensures none { IfNone result (IfSome before (λ form. follows (Some form) form ≡ true → SaysNot (fields_of form) text.now)) }
{
    match before? {
        Form::Section => {
            let (section, rest) = section_ahead(line, text)?;
            Some((Kept::Section(section), rest))
        }
        Form::Segment => {
            let (segment, rest) = segment_ahead(line, text)?;
            Some((Kept::Segment(segment), rest))
        }
        other => {
            let rest = behind_other(line, other, text)?;
            Some((Kept::Nothing, rest))
        }
    }
}
