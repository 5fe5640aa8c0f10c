//! Numbers.
ghost use Rattle.std.specs.Prelude.{◌≡◌, ◌==◌, ◌<◌, true, false, length, slice_index, option_map, IsTrue, IfSome};
ghost use Rattle.std.specs.Str.Parse.{AllDigits, digits_value};
ghost use Rattle.fast_float.specs.Text.{minus, scan};
ghost use Rattle.serde_json.specs.Read.{number_of, number_from, float_of};
ghost use Rattle.serde_json.specs.View.{number_view};

use fast_float::Numeral;
use serde_json::Number;

/// The function `few_digits` appends another digit only to numbers up to `FULL`.
const FULL: u64 = 1_000_000_000_000_000_000;

/// Parses the text of a number, if the number is in the range of a float.
pub(crate) fn read_number(text: &str) -> Option<Number>
    ensures { option_map number_view result ≡ number_of text.now }
{
    let bytes = text.as_bytes();
    if has_minus(bytes) {
        read_below_zero(&bytes[1..])
    } else {
        read_from_zero(bytes)
    }
}

/// Parses the text of a number that has no sign. A number usually has a few digits, which one loop converts.
#[inline(always)]
fn read_from_zero(bytes: &[u8]) -> Option<Number>
    ensures { option_map number_view result ≡ number_from false (scan bytes.now) }
{
    match few_digits(bytes) {
        Some(n) => Some(Number::from(n)),
        None => from_zero(&Numeral::scan(bytes)),
    }
}

/// Parses the text of a number after its minus sign.
#[inline(always)]
fn read_below_zero(bytes: &[u8]) -> Option<Number>
    ensures { option_map number_view result ≡ number_from true (scan bytes.now) }
{
    match few_digits(bytes) {
        Some(n) if 0 < n && n < FULL => Some(Number::from(-(n as i64))),
        _ => below_zero(&Numeral::scan(bytes)),
    }
}

/// Parses a string that consists only of digits, unless the string has too many digits.
#[inline(always)]
fn few_digits(bytes: &[u8]) -> Option<u64>
    ensures some { IfSome result (λ n. 0 < length bytes.now) }
    ensures digits { IfSome result (λ n. AllDigits 10 bytes.now) }
    ensures value { IfSome result (λ n. digits_value 10 bytes.now ≡ n) }
{
    if bytes.is_empty() {
        return None;
    }
    let mut n: u64 = 0;
    for byte in bytes {
        if n > FULL || !byte.is_ascii_digit() {
            return None;
        }
        n = n * 10 + u64::from(*byte - b'0');
    }
    Some(n)
}

/// Whether the first byte is a minus sign.
fn has_minus(bytes: &[u8]) -> bool
    ensures sign { result ≡ (slice_index bytes.now 0 == minus) }
    ensures some { IsTrue result → 0 < length bytes.now }
{
    !bytes.is_empty() && bytes[0] == b'-'
}

/// Converts the digits of a number without a sign.
#[inline(never)]
fn from_zero(numeral: &Numeral<'_>) -> Option<Number>
    ensures { option_map number_view result ≡ number_from false numeral.now }
{
    match numeral.to_u64() {
        Some(n) => Some(Number::from(n)),
        None => nearest(false, numeral),
    }
}

/// Converts the digits of a number after its minus sign.
#[inline(never)]
fn below_zero(numeral: &Numeral<'_>) -> Option<Number>
    ensures { option_map number_view result ≡ number_from true numeral.now }
{
    match numeral.to_i64(true) {
        Some(n) if n < 0 => Some(Number::from(n)),
        _ => nearest(true, numeral),
    }
}

/// Returns the float nearest to a number, if this float is finite.
fn nearest(negative: bool, numeral: &Numeral<'_>) -> Option<Number>
    ensures { option_map number_view result ≡ float_of negative numeral.now }
{
    Number::from_f64(numeral.to_float::<f64>(negative))
}
