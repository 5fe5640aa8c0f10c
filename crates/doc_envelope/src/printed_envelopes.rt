//! Recognizes envelopes that the crate `json` would print unchanged.
ghost use Rattle.std.specs.Prelude.{◌≡◌, ◌+◌, ◌≤◌, ◌++◌, ◌∷◌, [], ◌==◌, ◌||◌, length, get_or, true, IfSome};
ghost use Rattle.doc_envelope.specs.Texts.{is_json};
ghost use Rattle.doc_envelope.specs.Printed.{IsPrintedMember, IsQuoted, EndsPrinted, EndsEnvelope};

use crate::members::split_member;
use crate::printing::{after, is_printed_member};
use json_values::plain_end;

/// Returns true only if a text is JSON. The call recognizes only envelopes in the form that `Envelope::put` prints,
/// with `_id` as the first member.
#[inline(never)]
pub fn is_printed_envelope(text: &[u8]) -> bool
    ensures { result ≡ true → is_json text.now ≡ true }
{
    if !text.starts_with(b"{\"_id\":\"") {
        return false;
    }
    let Some(members) = after(text, b"{") else {
        return false;
    };
    let mut rest = members;
    while let Some((member, more)) = split_front(rest) {
        if !is_printed_member(member) {
            return false;
        }
        rest = more;
    }
    is_last(rest)
}

/// Returns the first member of an envelope and the text after the member's comma. Returns `None` if no comma follows
/// the member, or if the text begins with `"whole":`.
fn split_front(text: &[u8]) -> Option<(&[u8], &[u8])>
    ensures { IfSome result (λ p. text.now ≡ p.0.now ++ 44 ∷ p.1.now) }
{
    if text.starts_with(b"\"whole\":") {
        None
    } else {
        split_member(text)
    }
}

/// Returns true only if a text consists of a member that an envelope may have and the envelope's closing brace.
fn is_last(text: &[u8]) -> bool
    ensures { result ≡ true → EndsEnvelope text.now }
{
    match before_brace(text) {
        Some(member) => is_whole(member) || is_printed_member(member),
        None => false,
    }
}

/// Returns the text before a closing brace, or `None` if the text does not end with a closing brace.
fn before_brace(text: &[u8]) -> Option<&[u8]>
    ensures { IfSome result (λ member. text.now ≡ member.now ++ 125 ∷ []) }
{
    text.strip_suffix(b"}")
}

/// Returns true only if a member is named `whole` and its value is a string in the exact form that the crate `json`
/// prints.
fn is_whole(member: &[u8]) -> bool
    ensures { result ≡ true → IsPrintedMember member.now }
{
    match after(member, b"\"whole\":") {
        Some(value) => is_quoted(value),
        None => false,
    }
}

/// Returns true only if a value is a string in the exact form that the crate `json` prints.
fn is_quoted(value: &[u8]) -> bool
    ensures { result ≡ true → IsQuoted value.now }
{
    let Some(string) = after(value, b"\"") else {
        return false;
    };
    match simdutf8::basic::from_utf8(value) {
        Ok(_) => ends_printed(string),
        Err(_) => false,
    }
}

/// Returns true only if a text is a string as the crate `json` prints it, but without the opening quotation mark. The
/// string may have quotation marks and backslashes, but no other characters that need an escape.
fn ends_printed(text: &[u8]) -> bool
    ensures { result ≡ true → EndsPrinted text.now }
{
    let mut at = plain_end(text, 0);
    while is_escape(text, at) {
        at = plain_end(text, at + 2);
    }
    at + 1 == text.len() && text[at] == b'"'
}

/// Returns true only if the escape `\"` or `\\` is at the position `at`.
#[inline(always)]
fn is_escape(text: &[u8], at: usize) -> bool
    requires { at ≤ length text.now }
    ensures within { result ≡ true → at + 2 ≤ length text.now }
    ensures first { result ≡ true → get_or text.now at 0 ≡ 92 }
    ensures second { result ≡ true → (get_or text.now (at + 1) 0 == 34 || get_or text.now (at + 1) 0 == 92) ≡ true }
{
    text.len() - at >= 2 && text[at] == b'\\' && (text[at + 1] == b'"' || text[at + 1] == b'\\')
}
