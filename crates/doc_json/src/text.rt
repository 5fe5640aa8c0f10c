//! Appends strings and integers as JSON to a buffer.
ghost use Rattle.std.specs.Prelude.{◌≡◌, ◌<◌, ◌≤◌, ◌++◌, [], ◌∷◌, false, take, decimal, OnOk};
ghost use Rattle.std.specs.Fmt.{signed_decimal};
ghost use Rattle.std.specs.Char.{digit_char};
ghost use Rattle.json_values.specs.Plain.{PlainIf};
ghost use Rattle.json.specs.Print.{escape_letter, escape_byte, quoted};
ghost use Rattle.serde_json.specs.Find.{is_float};
ghost use Rattle.serde_json.specs.View.{number_view};
ghost use Rattle.serde_json.specs.Written.{comma_if, number_text};
ghost use Rattle.doc_json.specs.Buffers.{Keeps};
ghost use Rattle.doc_json.specs.Numbers.{ReadsBack};

use itoa::Buffer;
use json_values::{is_plain, plain_end};
use serde_json::Number;
use std::alloc::AllocError;

/// Appends a comma to a buffer if `later` is true.
#[inline(always)]
pub(crate) fn push_comma(out: &mut Vec<u8>, later: bool) -> Result<(), AllocError>
    ensures { OnOk result (out.new.items ≡ out.old.items ++ comma_if later) }
{
    if later {
        out.push(b',')?;
    }
    Ok(())
}

/// Appends the name of a member and a colon, after a comma if `later` is true. The argument `is_plain` says whether the
/// caller knows that the name needs no escapes.
#[inline(always)]
pub(crate) fn push_name(
    out: &mut Vec<u8>,
    later: bool,
    name: &str,
    is_plain: bool,
) -> Result<(), AllocError>
    ensures { OnOk result (PlainIf is_plain name.now
        → out.new.items ≡ out.old.items ++ (comma_if later ++ (quoted name.now ++ 58 ∷ []))) }
{
    push_comma(out, later)?;
    push_known_text(out, name, is_plain)?;
    out.push(b':')?;
    Ok(())
}

/// Appends a string in quotation marks. Strings without escapes take a fast path.
///
/// If an allocation fails, the call may have appended a part of the string, but the buffer keeps its previous content.
pub fn push_text(out: &mut Vec<u8>, text: &str) -> Result<(), AllocError>
    ensures text { OnOk result (out.new.items ≡ out.old.items ++ quoted text.now) }
    ensures kept { Keeps out.old.items out.new.items }
{
    if !is_plain(text.as_bytes()) {
        return push_escaped(out, text);
    }
    push_standing(out, text)
}

/// Appends a string in quotation marks. The argument `is_plain` says whether the caller knows that the string needs no
/// escapes.
#[inline(always)]
pub(crate) fn push_known_text(
    out: &mut Vec<u8>,
    text: &str,
    is_plain: bool,
) -> Result<(), AllocError>
    ensures { OnOk result (PlainIf is_plain text.now → out.new.items ≡ out.old.items ++ quoted text.now) }
{
    if is_plain {
        push_standing(out, text)
    } else {
        push_text(out, text)
    }
}

/// Appends a string in quotation marks, without escapes.
#[inline(always)]
fn push_standing(out: &mut Vec<u8>, text: &str) -> Result<(), AllocError>
    ensures text { OnOk result (out.new.items ≡ out.old.items ++ 34 ∷ (text.now ++ 34 ∷ [])) }
    ensures kept { Keeps out.old.items out.new.items }
{
    out.push(b'"')?;
    out.extend_from_slice(text.as_bytes())?;
    out.push(b'"')?;
    Ok(())
}

/// Appends a string in quotation marks. The call copies uninterrupted sequences of bytes that need no escapes, and
/// escapes all other bytes.
#[inline(never)]
fn push_escaped(out: &mut Vec<u8>, text: &str) -> Result<(), AllocError>
    ensures text { OnOk result (out.new.items ≡ out.old.items ++ quoted text.now) }
    ensures kept { Keeps out.old.items out.new.items }
{
    let bytes = text.as_bytes();
    out.push(b'"')?;
    let mut at = 0;
    loop {
        let stop = plain_end(bytes, at);
        out.extend_from_slice(&bytes[at..stop])?;
        if stop == bytes.len() {
            out.push(b'"')?;
            return Ok(());
        }
        push_escape(out, bytes[stop])?;
        at = stop + 1;
    }
}

/// Appends the escape of a byte.
#[inline(never)]
fn push_escape(out: &mut Vec<u8>, byte: u8) -> Result<(), AllocError>
    ensures text { OnOk result (out.new.items ≡ out.old.items ++ escape_byte byte) }
    ensures kept { Keeps out.old.items out.new.items }
{
    let (escape, len) = escape_of(byte);
    out.extend_from_slice(&escape[..len])
}

/// Returns the escape of a byte, and the length of the escape.
fn escape_of(byte: u8) -> ([u8; 6], usize)
    ensures value { take result.1 result.0 ≡ escape_byte byte }
    ensures bound { result.1 ≤ 6 }
{
    let letter = letter(byte);
    if letter > 0 {
        return ([b'\\', letter, 0, 0, 0, 0], 2);
    }
    if byte < 0x20 {
        return ([b'\\', b'u', b'0', b'0', hex(byte / 16), hex(byte % 16)], 6);
    }
    ([byte, 0, 0, 0, 0, 0], 1)
}

/// Returns the letter of a byte's short JSON escape (such as `n` in `\n`), or 0 if the byte has no short escape.
fn letter(byte: u8) -> u8
    ensures { result ≡ escape_letter byte }
{
    match byte {
        b'"' | b'\\' => byte,
        8 => b'b',
        12 => b'f',
        b'\n' => b'n',
        b'\r' => b'r',
        b'\t' => b't',
        _ => 0,
    }
}

/// Returns a hexadecimal digit.
fn hex(digit: u8) -> u8
    requires { digit < 16 }
    ensures { result ≡ digit_char digit }
{
    if digit < 10 {
        b'0' + digit
    } else {
        b'a' - 10 + digit
    }
}

/// Appends an integer in decimal to a buffer.
#[inline(always)]
pub(crate) fn push_integer(out: &mut Vec<u8>, n: &Number) -> Result<(), AllocError>
    requires { is_float (number_view n.now) ≡ false }
    ensures text { OnOk result (out.new.items ≡ out.old.items ++ number_text (number_view n.now)) }
    ensures numbers { ReadsBack (number_view n.now) }
{
    match n.as_u64() {
        Some(n) => push_whole(out, n),
        None => push_signed(out, n.as_i64().unwrap()),
    }
}

/// Appends an unsigned integer. An integer of one digit is appended directly.
#[inline(always)]
fn push_whole(out: &mut Vec<u8>, n: u64) -> Result<(), AllocError>
    ensures { OnOk result (out.new.items ≡ out.old.items ++ decimal n) }
{
    if n < 10 {
        out.push(b'0' + n as u8)?;
        return Ok(());
    }
    push_digits(out, n)
}

/// Appends an unsigned integer with any number of digits.
#[inline(never)]
fn push_digits(out: &mut Vec<u8>, n: u64) -> Result<(), AllocError>
    ensures { OnOk result (out.new.items ≡ out.old.items ++ decimal n) }
{
    let mut buffer = Buffer::new();
    out.extend_from_slice(buffer.format(n).as_bytes())
}

/// Appends a negative integer.
#[inline(never)]
fn push_signed(out: &mut Vec<u8>, n: i64) -> Result<(), AllocError>
    ensures { OnOk result (out.new.items ≡ out.old.items ++ signed_decimal n) }
{
    let mut buffer = Buffer::new();
    out.extend_from_slice(buffer.format(n).as_bytes())
}
