//! Reads numbers and the literals `true`, `false` and `null`.
ghost use Rattle.std.specs.Prelude.{◌≡◌, ◌<◌, ◌≤◌, ◌^◌, ◌||◌, length, take, drop, Some, IfSome};
ghost use Rattle.std.specs.Str.Parse.{AllDigits, digits_value};
ghost use Rattle.serde_json.specs.View.{number_view};
ghost use Rattle.json.specs.Word.{is_operator, is_space, after_digits, after_minus, after_sign, number_before, literal, after_whole, after_fraction, after_exponent, after_number, word};
ghost use Rattle.json.specs.Run.{EndsAt};
ghost use Rattle.json.specs.Reads.{token_of};
ghost use Rattle.json_values.specs.Words.{IsLiteral, IntegerAt, WordAt};

use crate::run::{byte_at, digits_end};
use json::Token;
use serde_json::Number;

/// The function `digits_sum` appends another digit only to numbers up to `FULL`.
const FULL: u64 = 100_000_000_000_000_000;

/// Whether a byte ends a number or a literal.
#[inline(always)]
fn is_delimiter(c: u8) -> bool
    ensures { result ≡ (is_operator c || is_space c) }
{
    let operator = (c == b'{')
        | (c == b'}')
        | (c == b'[')
        | (c == b']')
        | (c == b':')
        | (c == b',');
    let space = (c == b' ') | (c == b'\t') | (c == b'\n') | (c == b'\r');
    operator | space
}

/// Returns the index after the digits that begin at index `i`, or `None` if no digit is at index `i`.
#[inline(always)]
fn digits(text: &[u8], i: usize) -> Option<usize>
    requires { i ≤ length text.now }
    ensures { EndsAt text.now i result (after_digits (drop i text.now)) }
{
    let end = digits_end(text, i);
    if end == i { None } else { Some(end) }
}

/// Returns the index after the integer part of a number.
#[inline(always)]
fn whole(text: &[u8], i: usize) -> Option<usize>
    requires { i ≤ length text.now }
    ensures { EndsAt text.now i result (after_whole (drop i text.now)) }
{
    if byte_at(text, i) == b'0' {
        Some(i + 1)
    } else {
        digits(text, i)
    }
}

/// Returns the index after a number's fraction, or the given index if the number has no fraction.
#[inline(always)]
fn fraction(text: &[u8], i: usize) -> Option<usize>
    requires { i ≤ length text.now }
    ensures { EndsAt text.now i result (after_fraction (drop i text.now)) }
{
    if byte_at(text, i) == b'.' {
        digits(text, i + 1)
    } else {
        Some(i)
    }
}

/// Returns the index after an exponent's sign, or the given index if the exponent has no sign.
#[inline(always)]
fn sign_end(text: &[u8], i: usize) -> usize
    requires { i ≤ length text.now }
    ensures value { drop result text.now ≡ after_sign (drop i text.now) }
    ensures bounds { (i ≤ result) × (result ≤ length text.now) }
{
    let c = byte_at(text, i);
    if (c == b'-') | (c == b'+') { i + 1 } else { i }
}

/// Returns the index after a number's minus sign, or the given index if the number has no minus sign.
#[inline(always)]
fn minus_end(text: &[u8], i: usize) -> usize
    requires { i ≤ length text.now }
    ensures value { drop result text.now ≡ after_minus (drop i text.now) }
    ensures bounds { (i ≤ result) × (result ≤ length text.now) }
{
    if byte_at(text, i) == b'-' { i + 1 } else { i }
}

/// Returns the index after a number's exponent, or the given index if the number has no exponent.
#[inline(always)]
fn exponent(text: &[u8], i: usize) -> Option<usize>
    requires { i ≤ length text.now }
    ensures { EndsAt text.now i result (after_exponent (drop i text.now)) }
{
    let c = byte_at(text, i);
    if !((c == b'e') | (c == b'E')) {
        return Some(i);
    }
    digits(text, sign_end(text, i + 1))
}

/// Returns the index after a number.
#[inline(always)]
fn number_end(text: &[u8], from: usize) -> Option<usize>
    requires { from ≤ length text.now }
    ensures { EndsAt text.now from result (after_number (drop from text.now)) }
{
    let point = whole(text, minus_end(text, from))?;
    let power = fraction(text, point)?;
    exponent(text, power)
}

/// Reads the number at an index, and returns the number with the index after it.
#[inline(always)]
fn number<'a>(text: &'a str, from: usize) -> Option<(Token<'a>, usize)>
    requires { from < length text.now }
    ensures { WordAt text.now from result
        (number_before (drop from text.now) (after_number (drop from text.now))) }
{
    let bytes = text.as_bytes();
    let end = number_end(bytes, from)?;
    if is_delimiter(byte_at(bytes, end)) {
        Some((Token::Number(&text[from..end]), end))
    } else {
        None
    }
}

/// Reads a literal with a given name at an index, and returns the literal with the index after it.
#[inline(always)]
fn literal<'a>(
    text: &[u8],
    from: usize,
    name: &[u8],
    token: Token<'a>,
) -> Option<(Token<'a>, usize)>
    requires within { from < length text.now }
    requires named { IsLiteral name.now (token_of token) }
    ensures { WordAt text.now from result (literal name.now (token_of token.entry) (drop from text.now)) }
{
    let rest = &text[from..];
    if rest.starts_with(name) && is_delimiter(byte_at(rest, name.len())) {
        Some((token, from + name.len()))
    } else {
        None
    }
}

/// Reads the number or literal at an index, and returns the number or literal with the index after it.
#[inline(always)]
pub(crate) fn word<'a>(text: &'a str, from: usize) -> Option<(Token<'a>, usize)>
    requires { from < length text.now }
    ensures { WordAt text.now from result (word (drop from text.now)) }
{
    let bytes = text.as_bytes();
    match byte_at(bytes, from) {
        b't' => literal(bytes, from, b"true", Token::Bool(true)),
        b'f' => literal(bytes, from, b"false", Token::Bool(false)),
        b'n' => literal(bytes, from, b"null", Token::Null),
        _ => number(text, from),
    }
}

/// Returns the value of the digits at the start of a text, and the number of these digits. Returns `None` if the text
/// begins with no digit or with too many digits.
#[inline(always)]
fn digits_sum(rest: &[u8]) -> Option<(u64, usize)>
    ensures bounds { IfSome result (λ r. (0 < r.1) × (r.1 ≤ length rest.now) × (r.0 < 2 ^ 63)) }
    ensures digits { IfSome result (λ r. AllDigits 10 (take r.1 rest.now)) }
    ensures value { IfSome result (λ r. digits_value 10 (take r.1 rest.now) ≡ r.0) }
    ensures after { IfSome result (λ r. after_whole rest.now ≡ Some (drop r.1 rest.now)) }
{
    if byte_at(rest, 0) == b'0' {
        return Some((0, 1));
    }
    let mut n: u64 = 0;
    let mut i = 0;
    while i < rest.len() && rest[i].is_ascii_digit() {
        if n > FULL {
            return None;
        }
        n = n * 10 + u64::from(rest[i] - b'0');
        i += 1;
    }
    if i == 0 { None } else { Some((n, i)) }
}

/// Returns the short number at an index of a JSON text, with the index after it. A short number has a few digits and an
/// optional minus sign.
#[inline(always)]
pub(crate) fn integer(text: &[u8], from: usize) -> Option<(Number, usize)>
    requires { from ≤ length text.now }
    ensures { IfSome result (λ r. IntegerAt text.now from (number_view r.0) r.1) }
{
    let start = minus_end(text, from);
    let (n, len) = digits_sum(&text[start..])?;
    let end = start + len;
    if !is_delimiter(byte_at(text, end)) {
        return None;
    }
    if start == from {
        return Some((Number::from(n), end));
    }
    if n == 0 {
        return None;
    }
    Some((Number::from(-(n as i64)), end))
}
