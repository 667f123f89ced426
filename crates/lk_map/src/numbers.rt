//! Numbers as a map writes them.

ghost use Rattle.std.specs.Prelude.{◌≡◌, ℕ, ◌≤◌, ◌<◌, ◌^◌, ◌+◌, ◌*◌, ◌∷◌, ◌++◌, nat_lt, List, Some, None, IfNone, IfSome, MatchOption, if◌then◌else◌, length, slice_index, take};
ghost use Rattle.std.specs.Str.Parse.{digits_value};
ghost use Rattle.std.specs.Char.{digit_value};
ghost use Rattle.lk_map.specs.Ahead.{Begins, BeginsNot};
ghost use Rattle.lk_map.specs.Digits.{AreDigitsIn, IsDigitIn};
ghost use Rattle.lk_map.specs.Numbers.{address_in, number_in};

/// What a byte counts as a digit below 16, in lower case: no less than 16 where it is none.
fn digit_of(byte: u8) -> u64
    ensures value { (base : ℕ) → base ≤ 16 → result < base → IsDigitIn base byte × (digit_value byte ≡ result) }
    ensures none { (base : ℕ) → base ≤ 16 → base ≤ result → ¬ IsDigitIn base byte }
{
    match byte {
        b'0'..=b'9' => u64::from(byte - b'0'),
        b'a'..=b'f' => u64::from(byte - 87),
        _ => 16,
    }
}

/// The number behind which one more digit stands in a base, if it has 64 bits.
fn with_digit(number: u64, base: u64, digit: u64) -> Option<u64>
    ensures { result ≡ (if nat_lt (number * base + digit) (2 ^ 64) then Some (number * base + digit) else None) }
{
    number.checked_mul(base)?.checked_add(digit)
}

/// The number that the digits of a word write in a base, in lower case, if it has 64 bits. Zeros may lead.
fn value_in(base: u64, word: &[u8]) -> Option<u64>
    requires low { 1 ≤ base }
    requires high { base ≤ 16 }
    ensures { MatchOption result (AreDigitsIn base word.now → 2 ^ 64 ≤ digits_value base word.now) (λ n. AreDigitsIn base word.now × (digits_value base word.now ≡ n) × (n < 2 ^ 64)) }
{
    let mut value: u64 = 0;
    for byte in word {
        let digit = digit_of(*byte);
        if digit >= base {
            return None;
        }
        value = with_digit(value, base, digit)?;
    }
    Some(value)
}

/// The number that a word writes in a base from 2 to 16: to 2^64 - 1, with no sign and no leading zero, in lower case.
pub fn read_number(base: u64, word: &[u8]) -> Option<u64>
    requires low { 2 ≤ base }
    requires high { base ≤ 16 }
    ensures { result ≡ number_in base word.now }
{
    if word.is_empty() {
        return None;
    }
    if word.len() > 1 && word[0] == b'0' {
        return None;
    }
    value_in(base, word)
}

/// The number that a word writes in base 16 behind `0x`.
#[tactic(auto, unfolding(crate::specs::Numbers::address_in))]
pub fn read_address(word: &[u8]) -> Option<u64>
    ensures { result ≡ address_in word.now }
{
    if word.len() >= 2 && word[0] == b'0' && word[1] == b'x' {
        read_number(16, &word[2..])
    } else {
        None
    }
}

// ---- numbers where they stand

/// What each byte counts as a digit below 16, in lower case: 16 where it is none. A table, since a branch can't foresee a digit.
const DIGITS: [u8; 256] = [
    16, 16, 16, 16, 16, 16, 16, 16, 16, 16, 16, 16, 16, 16, 16, 16, 16, 16, 16, 16, 16, 16, 16, 16,
    16, 16, 16, 16, 16, 16, 16, 16, 16, 16, 16, 16, 16, 16, 16, 16, 16, 16, 16, 16, 16, 16, 16, 16,
    0, 1, 2, 3, 4, 5, 6, 7, 8, 9, 16, 16, 16, 16, 16, 16, 16, 16, 16, 16, 16, 16, 16, 16, 16, 16,
    16, 16, 16, 16, 16, 16, 16, 16, 16, 16, 16, 16, 16, 16, 16, 16, 16, 16, 16, 16, 16, 16, 16, 10,
    11, 12, 13, 14, 15, 16, 16, 16, 16, 16, 16, 16, 16, 16, 16, 16, 16, 16, 16, 16, 16, 16, 16, 16,
    16, 16, 16, 16, 16, 16, 16, 16, 16, 16, 16, 16, 16, 16, 16, 16, 16, 16, 16, 16, 16, 16, 16, 16,
    16, 16, 16, 16, 16, 16, 16, 16, 16, 16, 16, 16, 16, 16, 16, 16, 16, 16, 16, 16, 16, 16, 16, 16,
    16, 16, 16, 16, 16, 16, 16, 16, 16, 16, 16, 16, 16, 16, 16, 16, 16, 16, 16, 16, 16, 16, 16, 16,
    16, 16, 16, 16, 16, 16, 16, 16, 16, 16, 16, 16, 16, 16, 16, 16, 16, 16, 16, 16, 16, 16, 16, 16,
    16, 16, 16, 16, 16, 16, 16, 16, 16, 16, 16, 16, 16, 16, 16, 16, 16, 16, 16, 16, 16, 16, 16, 16,
    16, 16, 16, 16, 16, 16, 16, 16, 16, 16, 16, 16, 16, 16,
];

/// What a byte counts as a digit below 16, by the table.
#[inline(always)]
fn hex_digit(byte: u8) -> u64
    ensures value { (base : ℕ) → base ≤ 16 → result < base → IsDigitIn base byte × (digit_value byte ≡ result) }
    ensures none { (base : ℕ) → base ≤ 16 → base ≤ result → ¬ IsDigitIn base byte }
{
    u64::from(DIGITS[usize::from(byte)])
}

/// What a byte counts as a digit below 10: no less than 10 where it is none.
#[inline(always)]
fn decimal_digit(byte: u8) -> u64
    ensures value { (base : ℕ) → base ≤ 16 → result < base → IsDigitIn base byte × (digit_value byte ≡ result) }
    ensures none { (base : ℕ) → base ≤ 10 → base ≤ result → ¬ IsDigitIn base byte }
{
    match byte {
        b'0'..=b'9' => u64::from(byte - b'0'),
        _ => 16,
    }
}

/// What a byte counts as a digit of a base: no less than the base where it is none.
#[inline(always)]
fn digit_in(base: u64, byte: u8) -> u64
    requires { base ≤ 16 }
    ensures value { result < base → IsDigitIn base byte × (digit_value byte ≡ result) }
    ensures none { base ≤ result → ¬ IsDigitIn base byte }
{
    if base <= 10 {
        decimal_digit(byte)
    } else {
        hex_digit(byte)
    }
}

/// The number that the first digits of a text write in a base, and how many they are: all that stand there, but no more than so many.
#[inline(always)]
fn first_digits(base: u64, most: usize, text: &[u8]) -> (u64, usize)
    requires high { base ≤ 16 }
    requires fits { base ^ most ≤ 2 ^ 64 }
    ensures within { result.1 ≤ length text.now }
    ensures most { result.1 ≤ most }
    ensures digits { AreDigitsIn base (take result.1 text.now) }
    ensures value { digits_value base (take result.1 text.now) ≡ result.0 }
    ensures all { result.1 < length text.now → result.1 < most → ¬ IsDigitIn base (slice_index text.now result.1) }
{
    let mut value: u64 = 0;
    let end = text.len().min(most);
    for count in 0..end {
        let digit = digit_in(base, text[count]);
        if digit >= base {
            return (value, count);
        }
        value = value * base + digit;
    }
    (value, end)
}

/// The number that a text's first word writes in a base, if a given byte ends it, and what stands behind that byte. One of more digits than
/// so many may be left. Each byte is looked at once, and no sum is tested, so this is faster than to cut the word off and read it.
#[inline(always)]
fn number_ahead(base: u64, most: usize, stop: u8, text: &[u8]) -> Option<(u64, &[u8])>
    requires low { 2 ≤ base }
    requires high { base ≤ 16 }
    requires fits { base ^ most ≤ 2 ^ 64 }
    ensures found { IfSome result (λ found. Begins stop text.now found.1.now (λ word. number_in base word ≡ Some found.0)) }
    ensures none { stop ≤ 32 → IfNone result (BeginsNot most stop text.now (number_in base)) }
{
    let (number, count) = first_digits(base, most, text);
    if count == 0 || count == text.len() {
        return None;
    }
    if count > 1 && text[0] == b'0' {
        return None;
    }
    if text[count] != stop {
        return None;
    }
    Some((number, &text[count + 1..]))
}

/// The same in decimal. One of 20 digits may be left to be cut off.
#[inline(always)]
pub fn decimal_ahead(stop: u8, text: &[u8]) -> Option<(u64, &[u8])>
    ensures found { IfSome result (λ found. Begins stop text.now found.1.now (λ word. number_in 10 word ≡ Some found.0)) }
    ensures none { stop ≤ 32 → IfNone result (BeginsNot 19 stop text.now (number_in 10)) }
{
    number_ahead(10, 19, stop, text)
}

/// The same of an address.
#[inline(always)]
pub fn address_ahead(stop: u8, text: &[u8]) -> Option<(u64, &[u8])>
    ensures found { IfSome result (λ found. Begins stop text.now found.1.now (λ word. address_in word ≡ Some found.0)) }
    ensures none { stop ≤ 32 → IfNone result ((word rest : List ℕ) → text.now ≡ word ++ stop ∷ rest → address_in word ≡ None) }
{
    if text.len() >= 2 && text[0] == b'0' && text[1] == b'x' {
        number_ahead(16, 16, stop, &text[2..])
    } else {
        None
    }
}
