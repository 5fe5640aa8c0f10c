//! Splits an object into the texts of its members.
ghost use Rattle.std.specs.Prelude.{◌≡◌, ◌+◌, ◌++◌, ◌∷◌, ◌<◌, ◌≤◌, ◌==◌, ℕ, length, drop, get_or, false, IfSome};
ghost use Rattle.doc_envelope.specs.Members.{Mode, Outside, Quoted, opens, closes, ends_member, nesting_behind, length_in, first_length};

use json_values::plain_end;

/// Whether a byte opens a list or an object.
#[inline(always)]
fn opens(byte: u8) -> bool
    ensures { result ≡ opens byte }
{
    byte == b'{' || byte == b'['
}

/// Whether a byte closes a list or an object.
#[inline(always)]
fn closes(byte: u8) -> bool
    ensures { result ≡ closes byte }
{
    byte == b'}' || byte == b']'
}

/// Whether a byte that is not in a string ends a member. `nesting` is the number of brackets that are open in the
/// member.
#[inline(always)]
fn ends(nesting: usize, byte: u8) -> bool
    ensures { result ≡ ends_member Outside nesting byte }
{
    nesting == 0 && (byte == b',' || closes(byte))
}

/// Returns the number of open brackets after a byte that is not in a string.
#[inline(always)]
fn nesting_behind(nesting: usize, byte: u8) -> usize
    requires { nesting < 9223372036854775808 }
    ensures value { result ≡ nesting_behind Outside nesting byte }
    ensures within { result ≤ nesting + 1 }
{
    if opens(byte) {
        nesting + 1
    } else if closes(byte) && nesting > 0 {
        nesting - 1
    } else {
        nesting
    }
}

/// Skips the byte at position `at` in a string, and returns the next position. The byte is a quotation mark, a control
/// character or a backslash. If the byte at `at` is a backslash, the call also skips the next byte.
#[inline(always)]
fn past_byte(text: &[u8], at: usize) -> usize
    requires { at < length text.now }
    ensures value { (n : ℕ) → (get_or text.now at 0 == 34) ≡ false
        → length_in Quoted n (drop at text.now) + at ≡ length_in Quoted n (drop result text.now) + result }
    ensures within { (at < result) × (result ≤ length text.now) }
{
    if text[at] == b'\\' && at + 1 < text.len() {
        at + 2
    } else {
        at + 1
    }
}

/// Finds the end of a string from a position inside the string, and returns the position after the closing quotation
/// mark.
#[inline(always)]
fn string_end(text: &[u8], from: usize) -> usize
    requires { from ≤ length text.now }
    ensures value { (n : ℕ) → length_in Quoted n (drop from text.now) + from
        ≡ length_in Outside n (drop result text.now) + result }
    ensures within { (from ≤ result) × (result ≤ length text.now) }
{
    let mut at = plain_end(text, from);
    while at < text.len() {
        if text[at] == b'"' {
            return at + 1;
        }
        at = plain_end(text, past_byte(text, at));
    }
    at
}

/// Returns the number of bytes of the first member. The member ends before a comma or a closing brace.
pub(crate) fn first_length(text: &[u8]) -> usize
    ensures value { result ≡ first_length text.now }
    ensures within { result ≤ length text.now }
{
    let mut nesting = 0;
    let mut at = 0;
    while at < text.len() {
        let byte = text[at];
        if byte == b'"' {
            at = string_end(text, at + 1);
        } else {
            if ends(nesting, byte) {
                return at;
            }
            nesting = nesting_behind(nesting, byte);
            at += 1;
        }
    }
    at
}

/// Returns the first member of an object and the text after the member's comma, or `None` if no comma follows the
/// member.
pub(crate) fn split_member(text: &[u8]) -> Option<(&[u8], &[u8])>
    ensures parts { IfSome result (λ p. text.now ≡ p.0.now ++ 44 ∷ p.1.now) }
    ensures first { IfSome result (λ p. first_length text.now ≡ length p.0.now) }
{
    let length = first_length(text);
    if length < text.len() && text[length] == b',' {
        Some((&text[..length], &text[length + 1..]))
    } else {
        None
    }
}
