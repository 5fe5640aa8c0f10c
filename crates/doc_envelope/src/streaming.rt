//! Recognizes texts that may be followed by a run: string bytes that are passed on without being stored.
ghost use Rattle.std.specs.Prelude.{◌≡◌, ◌<◌, ◌≤◌, ◌==◌, length, drop, get_or, cond, true, false, IfSome};
ghost use Rattle.std.specs.List.{list_all};
ghost use Rattle.doc_envelope.specs.Members.{Outside, Quoted, first_length};
ghost use Rattle.doc_envelope.specs.Streams.{MayStream, is_streamable, mode_after};

use crate::envelope::behind_brace;
use crate::members::first_length;
use json_values::plain_end;

/// Returns true only if `text` ends inside a string whose further bytes may be passed on without being stored.
pub(crate) fn may_stream(text: &[u8]) -> bool
    ensures { result ≡ true → MayStream text.now }
{
    text.len() >= 16 && is_run(&text[text.len() - 8..]) && ends_quoted(text)
}

/// Whether each byte of a text is printable ASCII, and not a quotation mark or a backslash.
fn is_run(text: &[u8]) -> bool
    ensures { result ≡ list_all is_streamable text.now }
{
    text.iter().all(|b| is_streamable(*b))
}

/// Whether a byte is printable ASCII, and not a quotation mark or a backslash.
#[inline(always)]
fn is_streamable(byte: u8) -> bool
    ensures { result ≡ is_streamable byte }
{
    byte >= 32 && byte < 127 && byte != b'"' && byte != b'\\'
}

/// Returns true only if a text ends inside a JSON string, before the quotation mark that closes the string.
fn ends_quoted(text: &[u8]) -> bool
    ensures { result ≡ true → mode_after Outside text.now ≡ Quoted }
{
    let mut quoted = false;
    let mut at = 0;
    while at < text.len() {
        if text[at] == b'"' {
            quoted = !quoted;
            at += 1;
        } else {
            let Some(next) = past_byte(quoted, text, at) else {
                return false;
            };
            at = next;
        }
    }
    quoted
}

/// Skips a byte that is not a quotation mark, and returns the next position. In a string, `past_byte` also skips the
/// byte after a backslash, or all bytes before the next quotation mark, backslash or control byte. Returns `None` if no
/// byte follows a backslash.
#[inline(always)]
fn past_byte(quoted: bool, text: &[u8], at: usize) -> Option<usize>
    requires within { at < length text.now }
    requires other { (get_or text.now at 0 == 34) ≡ false }
    ensures same { IfSome result (λ next. mode_after (cond quoted Quoted Outside) (drop at text.now)
        ≡ mode_after (cond quoted Quoted Outside) (drop next text.now)) }
    ensures behind { IfSome result (λ next. at < next) }
    ensures within { IfSome result (λ next. next ≤ length text.now) }
{
    if !quoted {
        return Some(at + 1);
    }
    if text[at] != b'\\' {
        return Some(plain_end(text, at + 1));
    }
    if at + 1 < text.len() {
        Some(at + 2)
    } else {
        None
    }
}

/// Returns true only if `text`, the beginning of an object, contains the end of the object's first member.
pub(crate) fn ends_first(text: &[u8]) -> bool
    ensures { result ≡ true → first_length (drop 1 text.now) < length (drop 1 text.now) }
{
    let members = behind_brace(text);
    first_length(members) < members.len()
}
