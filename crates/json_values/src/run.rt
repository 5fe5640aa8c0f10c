//! Finds the ends of runs of blanks, of digits, and of string content without escapes.
ghost use Rattle.std.specs.Prelude.{◌≡◌, ◌+◌, ◌<◌, ◌≤◌, length, drop, get_or, true, IsTrue};
ghost use Rattle.std.specs.Prelude.{map};
ghost use Rattle.std.specs.List.{prefix_len};
ghost use Rattle.std.specs.Char.{is_ascii_digit};
ghost use Rattle.std.specs.Simd.Lanes.{mask_l};
ghost use Rattle.json.specs.Word.{head};
ghost use Rattle.json.specs.Lex.{class, between, lex};
ghost use Rattle.json.specs.Align.{is_blank};
ghost use Rattle.json.specs.Run.{is_stop, is_plain};

use std::simd::prelude::*;

/// Returns the byte at an index of a text, or a space if the index is not below the length.
#[inline(always)]
pub(crate) fn byte_at(text: &[u8], i: usize) -> u8
    ensures value { result ≡ get_or text.now i 32 }
    ensures head { result ≡ head (drop i text.now) }
{
    if i < text.len() { text[i] } else { b' ' }
}

/// Whether a byte is a blank.
#[inline(always)]
pub(crate) fn is_space(c: u8) -> bool
    ensures { result ≡ is_blank (class c) }
{
    (c == b' ') | (c == b'\t') | (c == b'\n') | (c == b'\r')
}

/// Returns the index of the first byte from `from` on that is not a blank.
#[inline(always)]
pub(crate) fn after_blanks(text: &[u8], from: usize) -> usize
    requires { from ≤ length text.now }
    ensures lexed { lex between (drop result text.now) ≡ lex between (drop from text.now) }
    ensures bounds { (from ≤ result) × (result ≤ length text.now) }
    ensures solid { is_blank (class (get_or text.now result 32)) ≡ true → result ≡ length text.now }
{
    let mut i = from;
    while i < text.len() && is_space(text[i]) {
        i += 1;
    }
    i
}

/// Returns a bit mask that says for each of sixteen bytes whether the byte is a quotation mark, a backslash or a
/// control byte.
#[inline(always)]
fn stops_16(v: u8x16) -> u64
    ensures { result ≡ mask_l (map is_stop v) }
{
    (v.simd_eq(u8x16::splat(b'"'))
        | v.simd_eq(u8x16::splat(b'\\'))
        | v.simd_lt(u8x16::splat(0x20))).to_bitmask()
}

/// Returns a bit mask that says for each of eight bytes whether the byte is a quotation mark, a backslash or a control
/// byte.
#[inline(always)]
fn stops_8(v: u8x8) -> u64
    ensures { result ≡ mask_l (map is_stop v) }
{
    (v.simd_eq(u8x8::splat(b'"'))
        | v.simd_eq(u8x8::splat(b'\\'))
        | v.simd_lt(u8x8::splat(0x20))).to_bitmask()
}

/// Returns a bit mask that says for each of four bytes whether the byte is a quotation mark, a backslash or a control
/// byte.
#[inline(always)]
fn stops_4(v: u8x4) -> u64
    ensures { result ≡ mask_l (map is_stop v) }
{
    (v.simd_eq(u8x4::splat(b'"'))
        | v.simd_eq(u8x4::splat(b'\\'))
        | v.simd_lt(u8x4::splat(0x20))).to_bitmask()
}

/// Returns the index of the first quotation mark, backslash or control byte from `from` on, or the length. Scans byte
/// by byte.
#[inline(always)]
fn plain_end_slowly(text: &[u8], from: usize) -> usize
    requires { from ≤ length text.now }
    ensures { result ≡ from + prefix_len is_plain (drop from text.now) }
{
    let mut i = from;
    while i < text.len() && text[i] != b'"' && text[i] != b'\\' && text[i] >= 0x20 {
        i += 1;
    }
    i
}

/// Does the same as `plain_end`, for a text of fewer than eight bytes.
#[inline(always)]
fn plain_end_4(text: &[u8], from: usize) -> usize
    requires { from ≤ length text.now }
    ensures { result ≡ from + prefix_len is_plain (drop from text.now) }
{
    if text.len() - from < 4 {
        return plain_end_slowly(text, from);
    }
    let found = stops_4(u8x4::from_slice(&text[from..]));
    if found != 0 {
        return from + found.trailing_zeros() as usize;
    }
    plain_end_slowly(text, from + 4)
}

/// Does the same as `plain_end`, for at most the last eight bytes of a text.
#[inline(always)]
fn plain_end_of_8(text: &[u8], from: usize) -> usize
    requires { (8 ≤ length text.now) × (length text.now ≤ from + 8) × (from ≤ length text.now) }
    ensures { result ≡ from + prefix_len is_plain (drop from text.now) }
{
    let start = text.len() - 8;
    let found = stops_8(u8x8::from_slice(&text[start..])) >> (from - start);
    if found != 0 {
        return from + found.trailing_zeros() as usize;
    }
    text.len()
}

/// Does the same as `plain_end`, for a text of which fewer than sixteen bytes remain.
#[inline(never)]
fn plain_end_short(text: &[u8], from: usize) -> usize
    requires { (from ≤ length text.now) × (length text.now < from + 16) }
    ensures { result ≡ from + prefix_len is_plain (drop from text.now) }
{
    if text.len() < 8 {
        return plain_end_4(text, from);
    }
    if text.len() - from < 8 {
        return plain_end_of_8(text, from);
    }
    let found = stops_8(u8x8::from_slice(&text[from..]));
    if found != 0 {
        return from + found.trailing_zeros() as usize;
    }
    plain_end_of_8(text, from + 8)
}

/// Does the same as `plain_end`, for the last bytes of a text, which are fewer than sixteen.
#[inline(always)]
fn plain_end_last(text: &[u8], from: usize) -> usize
    requires { (from ≤ length text.now) × (length text.now < from + 16) }
    ensures { result ≡ from + prefix_len is_plain (drop from text.now) }
{
    if text.len() < 16 {
        return plain_end_short(text, from);
    }
    let start = text.len() - 16;
    let found = stops_16(u8x16::from_slice(&text[start..])) >> (from - start);
    if found != 0 {
        return from + found.trailing_zeros() as usize;
    }
    text.len()
}

/// Returns the index of the first quotation mark, backslash or control byte from `from` on, or the length.
#[inline(always)]
pub fn plain_end(text: &[u8], from: usize) -> usize
    requires { from ≤ length text.now }
    ensures value { result ≡ from + prefix_len is_plain (drop from text.now) }
    ensures bound { result ≤ length text.now }
{
    let mut i = from;
    while text.len() - i >= 16 {
        let found = stops_16(u8x16::from_slice(&text[i..]));
        if found != 0 {
            return i + found.trailing_zeros() as usize;
        }
        i += 16;
    }
    plain_end_last(text, i)
}

/// Returns true only if no byte is a quotation mark, a backslash or a control byte.
#[inline(always)]
pub fn is_plain(text: &[u8]) -> bool
    ensures { IsTrue result → prefix_len is_plain text.now ≡ length text.now }
{
    if text.len() < 16 {
        return is_plain_short(text);
    }
    let mut i = 0;
    while text.len() - i >= 16 {
        if stops_16(u8x16::from_slice(&text[i..])) != 0 {
            return false;
        }
        i += 16;
    }
    stops_16(u8x16::from_slice(&text[text.len() - 16..])) == 0
}

/// Does the same as `is_plain`, for fewer than sixteen bytes. In a text of nine to fifteen bytes, the call tests the
/// first eight and the last eight bytes. In a text of four to eight bytes, the call tests the first four and the last
/// four bytes.
#[inline(always)]
fn is_plain_short(text: &[u8]) -> bool
    requires { length text.now < 16 }
    ensures { IsTrue result → prefix_len is_plain text.now ≡ length text.now }
{
    if text.len() < 4 {
        return plain_end_slowly(text, 0) == text.len();
    }
    if text.len() <= 8 {
        return is_plain_4(text);
    }
    is_plain_8(text)
}

/// Does the same as `is_plain`, for four to eight bytes.
#[inline(always)]
fn is_plain_4(text: &[u8]) -> bool
    requires { (4 ≤ length text.now) × (length text.now ≤ 8) }
    ensures { IsTrue result → prefix_len is_plain text.now ≡ length text.now }
{
    let first = stops_4(u8x4::from_slice(text));
    let last = stops_4(u8x4::from_slice(&text[text.len() - 4..]));
    (first == 0) & (last == 0)
}

/// Does the same as `is_plain`, for eight to sixteen bytes.
#[inline(always)]
fn is_plain_8(text: &[u8]) -> bool
    requires { (8 ≤ length text.now) × (length text.now ≤ 16) }
    ensures { IsTrue result → prefix_len is_plain text.now ≡ length text.now }
{
    let first = stops_8(u8x8::from_slice(text));
    let last = stops_8(u8x8::from_slice(&text[text.len() - 8..]));
    (first == 0) & (last == 0)
}

/// Returns the index of the first byte from `from` on that is not a digit, or the length.
#[inline(always)]
pub(crate) fn digits_end(text: &[u8], from: usize) -> usize
    requires { from ≤ length text.now }
    ensures value { result ≡ from + prefix_len is_ascii_digit (drop from text.now) }
    ensures bound { result ≤ length text.now }
{
    let mut i = from;
    while i < text.len() && text[i].is_ascii_digit() {
        i += 1;
    }
    i
}
