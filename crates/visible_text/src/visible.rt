//! Finds hidden characters, and appends their escapes.
ghost use Rattle.std.specs.Prelude.{◌≡◌, ◌<◌, ◌++◌, OnOk, chars, string_bytes, encode_utf8_all};
ghost use Rattle.std.specs.Char.{digit_char};
ghost use Rattle.visible_text.specs.Visible.{is_hidden, unit_of, escape_of, visible_char, visible, quoted_char, quoted_chars, quoted};

use std::alloc::AllocError;

/// Whether a character is hidden, that is, is printed only as an escape. Hidden characters are control characters,
/// format characters, direction marks, and line and paragraph separators. Characters that Unicode 15 calls
/// default-ignorable are also hidden. U+FFFE and U+FFFF are hidden because XML forbids these characters.
#[tactic(auto, unfolding(crate::specs::Visible::is_hidden))]
pub fn is_hidden(c: char) -> bool
    ensures { result ≡ is_hidden c }
{
    match c {
        '\0'..='\u{1f}' | '\u{7f}'..='\u{9f}' | '\u{ad}' | '\u{34f}' => true,
        '\u{600}'..='\u{605}' | '\u{61c}' | '\u{6dd}' | '\u{70f}' => true,
        '\u{890}'..='\u{891}' | '\u{8e2}' | '\u{115f}'..='\u{1160}' => true,
        '\u{17b4}'..='\u{17b5}' | '\u{180b}'..='\u{180f}' => true,
        '\u{200b}'..='\u{200f}' | '\u{2028}'..='\u{202e}' | '\u{2060}'..='\u{206f}' => true,
        '\u{3164}' | '\u{fe00}'..='\u{fe0f}' | '\u{feff}' | '\u{ffa0}' => true,
        '\u{fff0}'..='\u{fffb}' | '\u{fffe}'..='\u{ffff}' => true,
        '\u{110bd}' | '\u{110cd}' | '\u{13430}'..='\u{1343f}' => true,
        '\u{1bca0}'..='\u{1bca3}' | '\u{1d173}'..='\u{1d17a}' => true,
        '\u{e0000}'..='\u{e0fff}' => true,
        _ => false,
    }
}

/// Appends the JSON escape of a character, which is `\u` with four hexadecimal digits (RFC 8259, section 7). For a
/// character above U+FFFF, the call appends the escapes of the character's two surrogates.
///
/// # Errors
///
/// Returns `AllocError` if an allocation fails.
pub fn push_escape(out: &mut String, c: char) -> Result<(), AllocError>
    ensures { OnOk result (string_bytes out.new ≡ string_bytes out.old ++ encode_utf8_all (escape_of c)) }
{
    let code = c as u32;
    if code < 0x1_0000 {
        return push_unit(out, code);
    }
    push_unit(out, 0xD800 + (code - 0x1_0000) / 1024)?;
    push_unit(out, 0xDC00 + code % 1024)
}

/// Appends `\u` and the last four hexadecimal digits of a number.
fn push_unit(out: &mut String, unit: u32) -> Result<(), AllocError>
    ensures { OnOk result (string_bytes out.new ≡ string_bytes out.old ++ encode_utf8_all (unit_of unit)) }
{
    out.push_str("\\u")?;
    out.push(hex_digit(unit / 4096 % 16))?;
    out.push(hex_digit(unit / 256 % 16))?;
    out.push(hex_digit(unit / 16 % 16))?;
    out.push(hex_digit(unit % 16))
}

/// Returns the hexadecimal digit of a number below 16.
fn hex_digit(digit: u32) -> char
    requires { digit < 16 }
    ensures { result ≡ digit_char digit }
{
    if digit < 10 {
        char::from(b'0' + digit as u8)
    } else {
        char::from(b'a' + (digit as u8 - 10))
    }
}

/// Appends a character, or its JSON escape if `is_hidden` returns true for the character.
fn push_visible_char(out: &mut String, c: char) -> Result<(), AllocError>
    ensures { OnOk result (string_bytes out.new ≡ string_bytes out.old ++ encode_utf8_all (visible_char c)) }
{
    if is_hidden(c) {
        return push_escape(out, c);
    }
    out.push(c)
}

/// Appends a text with each hidden character replaced by its escape.
///
/// # Errors
///
/// Returns `AllocError` if an allocation fails.
pub fn push_visible(out: &mut String, text: &str) -> Result<(), AllocError>
    ensures { OnOk result (string_bytes out.new ≡ string_bytes out.old ++ encode_utf8_all (visible (chars text.now))) }
{
    for c in text.chars() {
        push_visible_char(out, c)?;
    }
    Ok(())
}

/// Appends a character of a JSON string. The call puts a backslash before a quotation mark or a backslash, and replaces
/// a hidden character by its escape.
fn push_quoted_char(out: &mut String, c: char) -> Result<(), AllocError>
    ensures { OnOk result (string_bytes out.new ≡ string_bytes out.old ++ encode_utf8_all (quoted_char c)) }
{
    match c {
        '"' => out.push_str("\\\""),
        '\\' => out.push_str("\\\\"),
        c => push_visible_char(out, c),
    }
}

/// Appends the characters of a JSON string, without quotation marks around the string.
fn push_quoted_chars(out: &mut String, text: &str) -> Result<(), AllocError>
    ensures { OnOk result (string_bytes out.new ≡ string_bytes out.old ++ encode_utf8_all (quoted_chars (chars text.now))) }
{
    for c in text.chars() {
        push_quoted_char(out, c)?;
    }
    Ok(())
}

/// Appends a text as a JSON string in which hidden characters are escaped.
///
/// # Errors
///
/// Returns `AllocError` if an allocation fails.
pub fn push_quoted(out: &mut String, text: &str) -> Result<(), AllocError>
    ensures { OnOk result (string_bytes out.new ≡ string_bytes out.old ++ encode_utf8_all (quoted (chars text.now))) }
{
    out.push('"')?;
    push_quoted_chars(out, text)?;
    out.push('"')
}
