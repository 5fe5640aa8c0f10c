//! Reads and writes the strings in journal lines.
ghost use Rattle.std.specs.Prelude.{◌≡◌, ◌++◌, OnOk, option_map};
ghost use Rattle.std.specs.List.{list_all, position};
ghost use Rattle.json.specs.Print.{quoted};
ghost use Rattle.journal_lines.specs.Texts.{after, cut_at_blank, is_blank, is_plain_byte, rev_text, text_in};

use json::Writer;
use std::alloc::{AllocError, Global};
use std::str;

/// Returns the given bytes as text, or `None` if they are not UTF-8.
pub fn text_of(bytes: &[u8]) -> Option<&str>
    ensures { option_map (λ s. s.now) result ≡ text_in bytes.now }
{
    match str::from_utf8(bytes) {
        Ok(text) => Some(text),
        Err(_) => None,
    }
}

/// Returns the bytes after a prefix, or `None` if the bytes do not begin with the prefix.
pub(crate) fn after<'a>(prefix: &[u8], bytes: &'a [u8]) -> Option<&'a [u8]>
    ensures { option_map (λ s. s.now) result ≡ after prefix.now bytes.now }
{
    bytes.strip_prefix(prefix)
}

fn first_blank(bytes: &[u8]) -> Option<usize>
    ensures { result ≡ position is_blank bytes.now }
{
    bytes.iter().position(|b| *b == b' ')
}

/// Splits bytes at the first blank, and returns both parts without the blank. Returns `None` if there is no blank.
pub(crate) fn cut_at_blank(bytes: &[u8]) -> Option<(&[u8], &[u8])>
    ensures { option_map (λ p. (p.0.now, p.1.now)) result ≡ cut_at_blank bytes.now }
{
    let Some(end) = first_blank(bytes) else {
        return None;
    };
    Some((&bytes[..end], &bytes[end + 1..]))
}

/// Appends a string as a JSON string, in quotation marks.
pub fn push_json(alloc: Global, out: &mut Vec<u8>, text: &str) -> Result<(), AllocError>
    ensures { OnOk result (out.new.items ≡ out.old.items ++ quoted text.now) }
{
    let mut writer = Writer::new(Vec::new(alloc));
    writer.string(text)?;
    let json = writer.into_inner();
    out.extend_from_slice(json.as_slice())?;
    Ok(())
}

/// Whether a byte is an ASCII letter, a digit, `-`, `_` or `.`. A revision of such bytes is written without quotation
/// marks.
fn is_plain_byte(byte: u8) -> bool
    ensures { result ≡ is_plain_byte byte }
{
    byte >= b'a' && byte <= b'z'
        || byte >= b'A' && byte <= b'Z'
        || byte >= b'0' && byte <= b'9'
        || byte == b'-'
        || byte == b'_'
        || byte == b'.'
}

fn is_plain(bytes: &[u8]) -> bool
    ensures { result ≡ list_all is_plain_byte bytes.now }
{
    bytes.iter().all(|b| is_plain_byte(*b))
}

/// Appends a revision. The call appends a revision of letters, digits, `-`, `_` and `.` unchanged, and any other
/// revision as a JSON string.
pub fn push_rev(alloc: Global, out: &mut Vec<u8>, rev: &str) -> Result<(), AllocError>
    ensures { OnOk result (out.new.items ≡ out.old.items ++ rev_text rev.now) }
{
    if is_plain(rev.as_bytes()) {
        return out.extend_from_slice(rev.as_bytes());
    }
    push_json(alloc, out, rev)
}
