//! The numbers of JSON.
ghost use Rattle.std.specs.Prelude.{◌≡◌, ◌<◌, ◌==◌, false, length, option_map, slice_index, true};
ghost use Rattle.fast_float.specs.Text.{scan};
ghost use Rattle.serde_json.specs.Read.{float_of, number_from, number_of};
ghost use Rattle.serde_json.specs.View.{number_view};

use fast_float::Numeral;
use serde_json::Number;

/// Whether a text begins with a minus.
#[inline(always)]
fn has_minus(bytes: &[u8]) -> bool
    ensures value { result ≡ (slice_index bytes.now 0 == 45) }
    ensures some { result ≡ true → 0 < length bytes.now }
{
    match bytes.first() {
        Some(first) => *first == b'-',
        None => false,
    }
}

/// The digits are scanned here once more, so that those of a whole number need no memory.
#[inline(never)]
fn nearest_float(is_negative: bool, digits: &[u8]) -> Option<Number>
    ensures { option_map number_view result ≡ float_of is_negative (scan digits.now) }
{
    Number::from_f64(Numeral::scan(digits).to_float::<f64>(is_negative))
}

#[inline(always)]
fn without_minus(digits: &[u8]) -> Option<Number>
    ensures { option_map number_view result ≡ number_from false (scan digits.now) }
{
    match Numeral::scan(digits).to_u64() {
        Some(number) => Some(Number::from(number)),
        None => nearest_float(false, digits),
    }
}

#[inline(always)]
fn with_minus(digits: &[u8]) -> Option<Number>
    ensures { option_map number_view result ≡ number_from true (scan digits.now) }
{
    match Numeral::scan(digits).to_i64(true) {
        // `-0` is a float.
        Some(number) if number < 0 => Some(Number::from(number)),
        _ => nearest_float(true, digits),
    }
}

/// The number that a token of JSON writes: itself where it is written with digits alone and has 64 bits, else the
/// nearest float. `-0` is a float. `None` exactly where the number is too large for a float.
#[inline(always)]
pub fn parse_number(text: &str) -> Option<Number>
    ensures { option_map number_view result ≡ number_of text.now }
{
    let bytes = text.as_bytes();
    if has_minus(bytes) {
        with_minus(&bytes[1..])
    } else {
        without_minus(bytes)
    }
}

/// What `parse_number` answers, in a frame of its own. With `parse_number` inlined, `tree` would be so large that the
/// compiler doesn't inline it any more.
#[inline(never)]
pub(crate) fn parse_number_apart(text: &str) -> Option<Number>
    ensures { option_map number_view result ≡ number_of text.now }
{
    parse_number(text)
}
