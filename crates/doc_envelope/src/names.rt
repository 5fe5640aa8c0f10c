//! Finds the names and the values in the texts of members.
ghost use Rattle.std.specs.Prelude.{◌≡◌, drop};
ghost use Rattle.doc_envelope.specs.Names.{trimmed, has_name, value_of, first_member, id_of, is_log};

use crate::members::first_length;

/// Returns a text without leading white space.
pub(crate) fn trimmed(text: &[u8]) -> &[u8]
    ensures { result.now ≡ trimmed text.now }
{
    let mut rest = text;
    while !rest.is_empty() && rest[0] == b' ' {
        rest = &rest[1..];
    }
    rest
}

/// Whether a member has a given name, which includes its quotation marks.
pub(crate) fn has_name(member: &[u8], name: &[u8]) -> bool
    ensures { result ≡ has_name member.now name.now }
{
    trimmed(member).starts_with(name)
}

/// Returns a text without its first `count` bytes.
fn behind(text: &[u8], count: usize) -> &[u8]
    ensures { result.now ≡ drop count text.now }
{
    if count <= text.len() {
        &text[count..]
    } else {
        &text[text.len()..]
    }
}

/// Returns the text of a member's value. `name` is the member's name with its quotation marks.
pub(crate) fn value_of<'a>(member: &'a [u8], name: &[u8]) -> &'a [u8]
    ensures { result.now ≡ value_of member.now name.now }
{
    let colon = trimmed(behind(trimmed(member), name.len()));
    trimmed(behind(colon, 1))
}

/// Returns the text of a document's first member.
fn first_member(document: &[u8]) -> &[u8]
    ensures { result.now ≡ first_member document.now }
{
    let members = behind(document, 1);
    &members[..first_length(members)]
}

/// Returns the text of a document's id if `_id` is the first member, else an empty text.
pub fn id_of(document: &[u8]) -> &[u8]
    ensures { result.now ≡ id_of document.now }
{
    let first = first_member(document);
    if has_name(first, b"\"_id\"") {
        value_of(first, b"\"_id\"")
    } else {
        &first[..0]
    }
}

/// Whether a text is a replication log instead of a document.
pub fn is_log(document: &[u8]) -> bool
    ensures { result ≡ is_log document.now }
{
    document.starts_with(b"{\"_id\":\"_local/")
}
