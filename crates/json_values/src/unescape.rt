//! Unescapes the content of a string into a buffer.
ghost use Rattle.std.specs.Prelude.{◌≡◌, ◌+◌, ◌-◌, ◌<◌, ◌≤◌, ◌++◌, length, take, drop, get_or, Some, None, MatchOption, IfSome};
ghost use Rattle.std.specs.Char.{digit_value};
ghost use Rattle.std.specs.Str.{IsUtf8, IsCharBoundary};
ghost use Rattle.json.specs.Text.{code_unit, short_escape, content, plain, after_backslash, after_u, after_high};
ghost use Rattle.json.specs.Lex.{between, in_string, lex};
ghost use Rattle.json_values.specs.Escapes.{Escape};

use crate::run::plain_end;
use std::simd::prelude::*;

/// Writes bytes into the buffer at an index.
#[inline(always)]
fn append(out: &mut [u8], at: usize, bytes: &[u8])
    requires { at + length bytes.now ≤ length out.old }
    ensures written { take (at + length bytes.now) out.new ≡ take at out.old ++ bytes.now }
    ensures len { length out.new ≡ length out.old }
{
    out[at..at + bytes.len()].copy_from_slice(bytes);
}

/// Copies the bytes `from..to` of a text into a buffer, at index `at`. If the text and the buffer each have at least 32
/// bytes after the copied bytes, the call copies SIMD vectors of 32 bytes. The last vector may overwrite up to 31 bytes
/// of the buffer after the copied bytes.
#[inline(always)]
fn append_run(out: &mut [u8], at: usize, text: &[u8], from: usize, to: usize)
    requires { (from ≤ to) × (to ≤ length text.now) × (at + (to - from) ≤ length out.old) }
    ensures written { take (at + (to - from)) out.new
        ≡ take at out.old ++ take (to - from) (drop from text.now) }
    ensures len { length out.new ≡ length out.old }
{
    let len = to - from;
    if text.len() - to < 32 || out.len() - at - len < 32 {
        append(out, at, &text[from..to]);
        return;
    }
    let mut done = 0;
    while done < len {
        u8x32::from_slice(&text[from + done..]).copy_to_slice(&mut out[at + done..]);
        done += 32;
    }
}

/// Returns the value of a hexadecimal digit, or 36 for any other byte.
fn digit(c: u8) -> u32
    ensures value { result ≡ digit_value c }
    ensures ascii { result < 16 → c < 128 }
{
    match c {
        b'0'..=b'9' => (c - b'0') as u32,
        b'A'..=b'Z' => (c - b'A') as u32 + 10,
        b'a'..=b'z' => (c - b'a') as u32 + 10,
        _ => 36,
    }
}

/// Returns the code unit of four hexadecimal digits.
fn hex4(text: &[u8], i: usize) -> Option<u32>
    requires { i + 4 ≤ length text.now }
    ensures value { result
        ≡ code_unit (get_or text.now i 0) (get_or text.now (i + 1) 0) (get_or text.now (i + 2) 0)
        (get_or text.now (i + 3) 0) }
    ensures bounds { IfSome result (λ u. (u < 65536) × (get_or text.now (i + 3) 0 < 128)) }
{
    let (a, b, c, d) = (
        digit(text[i]),
        digit(text[i + 1]),
        digit(text[i + 2]),
        digit(text[i + 3]),
    );
    if (a < 16) & (b < 16) & (c < 16) & (d < 16) {
        Some(a * 4096 + b * 256 + c * 16 + d)
    } else {
        None
    }
}

/// Returns the byte that an escape of one letter denotes.
fn short(x: u8) -> Option<u8>
    ensures value { result ≡ short_escape x }
    ensures ascii { IfSome result (λ c. (c < 128) × (x < 128)) }
{
    match x {
        b'"' | b'\\' | b'/' => Some(x),
        b'b' => Some(8),
        b'f' => Some(12),
        b'n' => Some(b'\n'),
        b'r' => Some(b'\r'),
        b't' => Some(b'\t'),
        _ => None,
    }
}

/// Reads the second half of a surrogate pair at index `i`.
fn low_half(text: &[u8], i: usize, high: u32) -> Option<(char, usize)>
    requires { (i ≤ length text.now) × (0xd800 ≤ high) × (high < 0xdc00) }
    ensures { Escape text.now (after_high high) i result }
{
    if text.len() - i < 6 || !((text[i] == b'\\') & (text[i + 1] == b'u')) {
        return None;
    }
    let low = hex4(text, i + 2)?;
    if !((0xdc00 <= low) & (low < 0xe000)) {
        return None;
    }
    let c = char::from_u32(0x10000 + (high - 0xd800) * 1024 + (low - 0xdc00))?;
    Some((c, i + 6))
}

/// Reads the part of an escape after `\u`, from index `i` of the text on.
fn unicode(text: &[u8], i: usize) -> Option<(char, usize)>
    requires { i ≤ length text.now }
    ensures { Escape text.now after_u i result }
{
    if text.len() - i < 4 {
        return None;
    }
    let unit = hex4(text, i)?;
    if (0xd800 <= unit) & (unit < 0xdc00) {
        return low_half(text, i + 4, unit);
    }
    let c = char::from_u32(unit)?;
    Some((c, i + 4))
}

/// Reads the part of an escape after its backslash, from index `i` of the text on. Returns the character of the escape,
/// and the index after the escape.
fn escape(text: &[u8], i: usize) -> Option<(char, usize)>
    requires { i ≤ length text.now }
    ensures { Escape text.now after_backslash i result }
{
    if i == text.len() {
        return None;
    }
    if text[i] == b'u' {
        return unicode(text, i + 1);
    }
    let c = short(text[i])?;
    Some((c as char, i + 1))
}

/// Writes into the buffer the unescaped content of the string that begins at index `start`. Returns the number of
/// written bytes, and the index after the string's closing quotation mark.
#[inline(never)]
pub(crate) fn unescape(text: &str, start: usize, out: &mut [u8]) -> Option<(usize, usize)>
    requires boundary { IsCharBoundary text.now start }
    requires room { length text.now ≤ length out.old + start }
    ensures value { MatchOption result (content plain (drop start text.now) ≡ None)
        (λ r. content plain (drop start text.now) ≡ Some (take r.0 out.new)) }
    ensures text { IfSome result (λ r. (r.0 ≤ length out.new) × IsUtf8 (take r.0 out.new)) }
    ensures after { IfSome result (λ r. lex in_string (drop start text.now) ≡ lex between (drop r.1 text.now)) }
    ensures bounds { IfSome result (λ r. (r.0 + start ≤ r.1) × (r.1 ≤ length text.now)) }
    ensures len { length out.new ≡ length out.old }
{
    let bytes = text.as_bytes();
    let mut i = start;
    let mut n = 0;
    loop {
        let stop = plain_end(bytes, i);
        if stop == bytes.len() || bytes[stop] < 0x20 {
            return None;
        }
        append_run(out, n, bytes, i, stop);
        n += stop - i;
        if bytes[stop] == b'"' {
            return Some((n, stop + 1));
        }
        let (c, next) = escape(bytes, stop + 1)?;
        let mut buffer = [0; 4];
        let encoded = c.encode_utf8(&mut buffer);
        append(out, n, encoded.as_bytes());
        n += encoded.len();
        i = next;
    }
}
