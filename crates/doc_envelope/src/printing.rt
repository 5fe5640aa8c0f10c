//! Recognizes members of an envelope that the crate `json` would print unchanged.
ghost use Rattle.std.specs.Prelude.{◌≡◌, ◌≤◌, ◌++◌, [], ◌∷◌, length, true, IfSome};
ghost use Rattle.std.specs.Str.{bytes_eq};
ghost use Rattle.doc_envelope.specs.Printed.{IsPrintedMember, IsPrintedValue, IsDigits, BeginsWithString, AreIds, IsStarted};

use json::is_number;
use json_values::plain_end;

/// Returns true only if `printed` is true, an envelope may have the member, and the crate `json` would print the member
/// unchanged.
pub(crate) fn still_printed(printed: bool, member: &[u8]) -> bool
    ensures { result ≡ true → (printed ≡ true) × IsPrintedMember member.now }
{
    printed && is_printed_member(member)
}

/// Returns true only if an envelope may have the member, and the crate `json` would print the member unchanged.
#[inline(always)]
pub(crate) fn is_printed_member(member: &[u8]) -> bool
    ensures { result ≡ true → IsPrintedMember member.now }
{
    is_id(member) || is_rev(member) || is_revs(member) || is_deleted(member)
}

/// Returns true only if a member is named `_id` and its value is an ASCII string without escapes.
fn is_id(member: &[u8]) -> bool
    ensures { result ≡ true → IsPrintedMember member.now }
{
    match after(member, b"\"_id\":") {
        Some(value) => is_string(value),
        None => false,
    }
}

/// Returns true only if a member is named `_rev` and its value is an ASCII string without escapes.
fn is_rev(member: &[u8]) -> bool
    ensures { result ≡ true → IsPrintedMember member.now }
{
    match after(member, b"\"_rev\":") {
        Some(value) => is_string(value),
        None => false,
    }
}

/// Returns true only if a member is named `_revisions` and its value is a revision history exactly as CouchDB prints
/// it.
fn is_revs(member: &[u8]) -> bool
    ensures { result ≡ true → IsPrintedMember member.now }
{
    match after(member, b"\"_revisions\":") {
        Some(value) => is_revisions(value),
        None => false,
    }
}

/// Returns true only if a member is `_deleted` with the value `true`, without white space.
fn is_deleted(member: &[u8]) -> bool
    ensures { result ≡ true → IsPrintedMember member.now }
{
    is(member, b"\"_deleted\":true")
}

/// Whether two texts are equal.
#[inline(always)]
fn is(text: &[u8], other: &[u8]) -> bool
    ensures { result ≡ bytes_eq text.now other.now }
{
    text == other
}

/// Returns the text after a prefix, or `None` if the text does not begin with the prefix.
#[inline(always)]
pub(crate) fn after<'a>(text: &'a [u8], prefix: &[u8]) -> Option<&'a [u8]>
    ensures { IfSome result (λ rest. text.now ≡ prefix.now ++ rest.now) }
{
    text.strip_prefix(prefix)
}

/// Returns true only if a value is a JSON string of ASCII characters without escapes.
fn is_string(value: &[u8]) -> bool
    ensures { result ≡ true → IsPrintedValue value.now }
{
    match after_string(value) {
        Some(rest) => rest.is_empty(),
        None => false,
    }
}

/// Returns the text after a JSON string of ASCII characters without escapes, or `None` if the text does not begin with
/// such a string.
#[inline(always)]
fn after_string(text: &[u8]) -> Option<&[u8]>
    ensures { IfSome result (λ rest. BeginsWithString text.now rest.now) }
{
    if text.is_empty() || text[0] != b'"' {
        return None;
    }
    let end = plain_end(text, 1);
    if end >= text.len() || text[end] != b'"' {
        return None;
    }
    let string = &text[1..end];
    if !string.is_ascii() {
        return None;
    }
    Some(&text[end + 1..])
}

/// Returns true only if a value is a revision history exactly as CouchDB prints it.
fn is_revisions(value: &[u8]) -> bool
    ensures { result ≡ true → IsPrintedValue value.now }
{
    match after(value, b"{\"start\":") {
        Some(start) => is_started(start),
        None => false,
    }
}

/// Returns true only if a text consists of a number, the member `ids` with a list of strings, and a closing brace, in
/// this order.
fn is_started(start: &[u8]) -> bool
    ensures { result ≡ true → IsStarted start.now }
{
    let count = comma(start);
    if !is_start(&start[..count]) {
        return false;
    }
    match after(&start[count..], b",\"ids\":[") {
        Some(ids) => are_ids(ids),
        None => false,
    }
}

/// Returns the number of bytes before the first comma of a text.
fn comma(text: &[u8]) -> usize
    ensures { result ≤ length text.now }
{
    let mut count = 0;
    while count < text.len() && text[count] != b',' {
        count += 1;
    }
    count
}

/// Returns true only if a text is a number.
fn is_start(text: &[u8]) -> bool
    ensures { result ≡ true → IsDigits text.now }
{
    match simdutf8::basic::from_utf8(text) {
        Ok(said) => is_number(said),
        Err(_) => false,
    }
}

/// Returns true only if a text consists of comma-separated ASCII strings without escapes, followed by the bytes `]}`.
fn are_ids(text: &[u8]) -> bool
    ensures { result ≡ true → AreIds text.now }
{
    let mut rest = text;
    while let Some(more) = after_id(rest) {
        rest = more;
    }
    is_last_id(rest)
}

/// Skips a string without escapes and the comma after the string, and returns the rest of the text. Returns `None` if
/// the text does not begin with such a string and a comma.
#[inline(always)]
fn after_id(text: &[u8]) -> Option<&[u8]>
    ensures { IfSome result (λ rest. BeginsWithString text.now (44 ∷ rest.now)) }
{
    match after_string(text) {
        Some(rest) => after(rest, b","),
        None => None,
    }
}

/// Returns true only if a text is a string without escapes, followed by the bytes `]}`.
fn is_last_id(text: &[u8]) -> bool
    ensures { result ≡ true → BeginsWithString text.now (93 ∷ 125 ∷ []) }
{
    match after_string(text) {
        Some(rest) => is(rest, b"]}"),
        None => false,
    }
}
