//! Checking UTF-8.
ghost use Rattle.std.specs.Prelude.{◌≡◌, MatchOption, IsTrue};
ghost use Rattle.std.specs.Str.{IsAscii, IsUtf8};

use std::simd::prelude::*;

/// Returns the bytes as a string if they are UTF-8. The call first tests whether all bytes are ASCII, because most
/// inputs are.
#[inline(never)]
pub(crate) fn text_of(bytes: &[u8]) -> Option<&str>
    ensures { MatchOption result (¬ (IsUtf8 bytes.now)) (λ s. (s.now ≡ bytes.now) × IsUtf8 bytes.now) }
{
    if is_ascii(bytes) {
        return Some(unsafe { std::str::from_utf8_unchecked(bytes) });
    }
    match std::str::from_utf8(bytes) {
        Ok(text) => Some(text),
        Err(_) => None,
    }
}

/// Returns true only if all bytes are ASCII.
#[inline(always)]
fn is_ascii(bytes: &[u8]) -> bool
    ensures { IsTrue result → IsAscii bytes.now }
{
    if bytes.len() < 16 {
        return is_ascii_slowly(bytes);
    }
    let mut i = 0;
    while bytes.len() - i >= 16 {
        if !is_ascii_16(u8x16::from_slice(&bytes[i..])) {
            return false;
        }
        i += 16;
    }
    is_ascii_16(u8x16::from_slice(&bytes[bytes.len() - 16..]))
}

/// Returns true only if sixteen bytes are ASCII.
#[inline(always)]
fn is_ascii_16(v: u8x16) -> bool
    ensures { IsTrue result → IsAscii v }
{
    v.simd_ge(u8x16::splat(128)).to_bitmask() == 0
}

/// Does the same as `is_ascii`, for fewer than sixteen bytes.
fn is_ascii_slowly(bytes: &[u8]) -> bool
    ensures { IsTrue result → IsAscii bytes.now }
{
    let mut i = 0;
    while i < bytes.len() {
        if bytes[i] >= 128 {
            return false;
        }
        i += 1;
    }
    true
}
