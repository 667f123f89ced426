//! Whole numbers that digits alone write, with a sign before them or without.

ghost use Rattle.std.specs.Prelude.{◌<◌, ◌^◌, IfSome};
ghost use Rattle.serde_json.specs.Find.{as_i64, as_u64};
ghost use Rattle.lk_input.specs.Plain.{IsDigits, Writes};

/// A number from here on takes no further digit, so that all of them fit 64 bits.
const LARGE: u64 = 100_000_000_000_000_000;

/// The number that these digits write; none where there is another byte, or no digit, or where the number is large.
fn digits_in(text: &[u8]) -> Option<u64>
    ensures { IfSome result (λ n. IsDigits text.now n × (n < 2 ^ 63)) }
{
    let mut number: u64 = 0;
    'digits: for place in 0..text.len() {
        let digit = text[place];
        if digit < b'0' || digit > b'9' || number >= LARGE {
            return None;
        }
        number = number * 10 + (digit - b'0') as u64;
    }
    if text.is_empty() { None } else { Some(number) }
}

/// The number without a sign that a text writes, where that is plain to see.
pub(crate) fn plain_number(text: &str) -> Option<u64>
    ensures { IfSome result (Writes as_u64 text.now) }
{
    digits_in(text.as_bytes())
}

/// The number with a sign or without one that a text writes, where that is plain to see.
pub(crate) fn plain_signed(text: &str) -> Option<i64>
    ensures { IfSome result (Writes as_i64 text.now) }
{
    match text.as_bytes() {
        [b'-', digits @ ..] => match digits_in(digits)? {
            0 => None,
            number => Some(-(number as i64)),
        },
        digits => Some(digits_in(digits)? as i64),
    }
}
