//! What a map's line says.

ghost use Rattle.std.specs.Prelude.{◌≡◌, ℕ, ◌≤◌, ◌<◌, ◌+◌, List, ◌∷◌, ◌++◌, [], Some, None, length, option_copied, option_map};
ghost use Rattle.std.specs.List.{slice_split};
ghost use Rattle.lk_map.specs.Cutting.{is_byte, parts_left};
ghost use Rattle.lk_map.specs.MapText.{number_at};
ghost use Rattle.lk_map.specs.Reading.{behind, forms, line_among, line_of, value_of, values_of, words_of};
ghost use Rattle.lk_map.specs.Values.{line_if, shown, values_if};

use crate::cut::cut_word;
use crate::forms::{FORMS, Field, Form, MOST_FIELDS, fields, text_of};
use crate::numbers::{read_address, read_number};

/// The values of a line: none where `-` stands.
#[derive(Clone, Copy)]
pub struct Values {
    held: [Option<u64>; MOST_FIELDS],
    count: usize,
}

impl Values {
    /// No values.
    pub fn none() -> Values
        ensures { shown result ≡ [] }
    {
        Values {
            held: [None; MOST_FIELDS],
            count: 0,
        }
    }

    /// The number at a place, or 0 where none is.
    pub fn number(&self, place: usize) -> u64
        ensures { result ≡ number_at (shown self.now) place }
    {
        if place < self.count && place < MOST_FIELDS {
            match self.held[place] {
                Some(number) => number,
                None => 0,
            }
        } else {
            0
        }
    }

    /// Adds a value.
    fn push(&mut self, value: Option<u64>)
        requires { self.old.count < 16 }
        ensures values { shown self.new ≡ shown self.old ++ value ∷ [] }
        ensures count { self.new.count ≡ self.old.count + 1 }
    {
        self.held[self.count] = value;
        self.count += 1;
    }

    /// Adds a number, if there is one.
    fn push_read(&mut self, number: Option<u64>) -> bool
        requires { self.old.count < 16 }
        ensures values { values_if result (shown self.new) ≡ behind (shown self.old) (option_map (λ n. Some n ∷ []) number) }
        ensures count { self.new.count ≤ self.old.count + 1 }
    {
        match number {
            Some(number) => {
                self.push(Some(number));
                true
            }
            None => false,
        }
    }

    /// Adds what a word says in a field. Says whether it fits.
    #[tactic(auto, unfolding(crate::specs::Reading::value_of))]
    fn take(&mut self, field: Field, word: &[u8]) -> bool
        requires { self.old.count < 16 }
        ensures values { values_if result (shown self.new) ≡ behind (shown self.old) (value_of field word.now) }
        ensures count { self.new.count ≤ self.old.count + 1 }
    {
        match field {
            Field::Word(expected) => word == text_of(expected).as_bytes(),
            Field::Number => self.push_read(read_number(10, word)),
            Field::Address => self.push_read(read_address(word)),
            Field::NumberOrNone => {
                if word == "-".as_bytes() {
                    self.push(None);
                    true
                } else {
                    self.push_read(read_number(10, word))
                }
            }
            Field::AddressOrNone => {
                if word == "-".as_bytes() {
                    self.push(None);
                    true
                } else {
                    self.push_read(read_address(word))
                }
            }
        }
    }

    /// Adds what a text's first word says in a field. Says whether it fits, and what stands behind the word's blank.
    fn take_first<'a>(&mut self, field: Field, text: &'a [u8]) -> (bool, Option<&'a [u8]>)
        requires { self.old.count < 16 }
        ensures values { (word : List ℕ) × (slice_split (is_byte 32) text.now ≡ word ∷ parts_left 32 (option_copied result.1)) × (values_if result.0 (shown self.new) ≡ behind (shown self.old) (value_of field word)) }
        ensures count { self.new.count ≤ self.old.count + 1 }
    {
        let (word, behind) = cut_word(text);
        (self.take(field, word), behind)
    }

    /// Takes the values of a line in so many fields in place of those that are there. Says whether they fit.
    fn take_all(&mut self, fields: &[Field], line: &[u8]) -> bool
        requires { length fields.now ≤ 16 }
        ensures { values_if result (shown self.new) ≡ values_of fields.now (words_of line.now) }
    {
        self.count = 0;
        let mut rest = Some(line);
        for field in fields {
            let Some(text) = rest else {
                return false;
            };
            let (fits, behind) = self.take_first(*field, text);
            if !fits {
                return false;
            }
            rest = behind;
        }
        rest.is_none()
    }
}

/// The first form that a line has, and its values in place of those that are there.
pub fn read_line(values: &mut Values, line: &[u8]) -> Option<Form>
    ensures { line_if result (shown values.new) ≡ line_of line.now }
{
    for form in FORMS {
        if values.take_all(fields(form), line) {
            return Some(form);
        }
    }
    None
}
