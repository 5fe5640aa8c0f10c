//! Compares single bytes and the names of members.
ghost use Rattle.std.specs.Prelude.{◌≡◌, ◌||◌};
ghost use Rattle.std.specs.Str.{bytes_eq};
ghost use Rattle.doc_envelope.specs.Texts.{is_space};
ghost use Rattle.response_parser.specs.State.{more};
ghost use Rattle.response_parser.specs.Names.{name_of, wanted_name, document_name, id_name, outermost_name, leaf_name, change_name};

use crate::place::{Name, Wanted};

/// Whether a byte is JSON white space.
#[inline(always)]
pub(crate) fn is_space(byte: u8) -> bool
    ensures { result ≡ is_space byte }
{
    byte == b' ' || byte == b'\t' || byte == b'\n' || byte == b'\r'
}

/// Returns a count plus one, or 2^64 - 1 if the count is already 2^64 - 1.
#[inline(always)]
pub(crate) fn more(count: u64) -> u64
    ensures { result ≡ more count }
{
    if count < u64::MAX { count + 1 } else { count }
}

/// Whether two texts are equal.
#[inline(always)]
pub(crate) fn is(text: &[u8], name: &[u8]) -> bool
    ensures { result ≡ bytes_eq text.now name.now }
{
    text == name
}

/// Whether a text equals one of two given texts.
#[inline(always)]
fn is_either(text: &[u8], one: &[u8], other: &[u8]) -> bool
    ensures { result ≡ (bytes_eq text.now one.now || bytes_eq text.now other.now) }
{
    is(text, one) || is(text, other)
}

/// Returns the kind of a JSON member whose name, with its quotation marks, is `text`. `first` says whether the member
/// is the first member of its object. `inner` is true if the member is in a list of a document's revisions, or in an
/// item of the top-level list `docs`. `diff` says whether the input is a response of `_revs_diff`. `depth` is the
/// number of lists and objects that are open.
#[tactic(auto, unfolding(crate::specs::Names::name_of))]
pub(crate) fn name_of(
    wanted: Wanted,
    first: bool,
    inner: bool,
    diff: bool,
    depth: u8,
    text: &[u8],
) -> Name
    ensures { result ≡ name_of wanted first inner diff depth text.now }
{
    if depth == 1 && is(text, b"\"error\"") {
        return Name::Error;
    }
    if depth == 1 && is(text, b"\"reason\"") {
        return Name::Reason;
    }
    wanted_name(wanted, first, inner, diff && depth == 2, depth == 1, text)
}

/// Returns the kind of a JSON member with the name `text`, which depends on the caller's request `wanted`.
fn wanted_name(
    wanted: Wanted,
    first: bool,
    inner: bool,
    entry: bool,
    outermost: bool,
    text: &[u8],
) -> Name
    ensures { result ≡ wanted_name wanted first inner entry outermost text.now }
{
    match wanted {
        Wanted::Leaves => name_of_leaves(inner, entry, text),
        Wanted::Changes => name_of_changes(first, text),
        Wanted::Documents | Wanted::Enveloped => {
            name_of_documents(false, first, inner, outermost, text)
        }
        Wanted::Bodies | Wanted::Unfolded => name_of_documents(true, first, inner, outermost, text),
    }
}

/// Returns the kind of a JSON member with the name `text`, for a caller that requested documents. The flag `item` says
/// whether the member is in an item of the outermost object's list `docs`. The flag `outermost` says whether the member
/// is in an outermost object.
#[inline(always)]
fn name_of_documents(strict: bool, first: bool, item: bool, outermost: bool, text: &[u8]) -> Name
    ensures { result ≡ document_name strict first item outermost text.now }
{
    if item && first {
        if is(text, b"\"_id\"") {
            Name::Plain
        } else {
            Name::Item
        }
    } else if is_either(text, b"\"ok\"", b"\"doc\"") {
        Name::Document
    } else if is(text, b"\"_id\"") {
        name_of_id(strict, first)
    } else if is(text, b"\"docs\"") {
        if outermost { Name::Docs } else { Name::List }
    } else if is_either(text, b"\"results\"", b"\"rows\"") {
        Name::List
    } else if is_either(text, b"\"missing\"", b"\"error\"") {
        Name::Passed
    } else if is(text, b"\"last_seq\"") {
        Name::Last
    } else if outermost {
        name_of_outermost(first, text)
    } else {
        Name::Other
    }
}

/// Returns the kind of a JSON member `_id`, for a caller that requested documents. If `_id` is not the first member of
/// its object, the parser skips the member, or rejects it if `strict` is true.
#[inline(always)]
fn name_of_id(strict: bool, first: bool) -> Name
    ensures { result ≡ id_name strict first }
{
    if first {
        Name::Plain
    } else if strict {
        Name::Foreign
    } else {
        Name::Passed
    }
}

/// Returns the kind of an outermost object's member with the name `text`. The kind is `Last` for `db_info`, `Seq` for a
/// first member `seq` (both are members of PouchDB dumps), and `Other` for every other member.
fn name_of_outermost(first: bool, text: &[u8]) -> Name
    ensures { result ≡ outermost_name first text.now }
{
    if is(text, b"\"db_info\"") {
        Name::Last
    } else if first && is(text, b"\"seq\"") {
        Name::Seq
    } else {
        Name::Other
    }
}

/// Returns the kind of a JSON member with the name `text`, for a caller that requested document ids and revisions
/// (`Leaves`).
fn name_of_leaves(inner: bool, entry: bool, text: &[u8]) -> Name
    ensures { result ≡ leaf_name inner entry text.now }
{
    if entry {
        if is(text, b"\"missing\"") {
            Name::Missing
        } else {
            Name::Other
        }
    } else if inner {
        if is(text, b"\"rev\"") {
            Name::Rev
        } else {
            Name::Other
        }
    } else if is(text, b"\"results\"") {
        Name::List
    } else if is(text, b"\"id\"") {
        Name::Id
    } else if is(text, b"\"changes\"") {
        Name::Changes
    } else if is(text, b"\"last_seq\"") {
        Name::Last
    } else {
        Name::Other
    }
}

/// Returns the kind of a JSON member with the name `text`, for a caller that requested the `change` lines of a script's
/// output.
fn name_of_changes(first: bool, text: &[u8]) -> Name
    ensures { result ≡ change_name first text.now }
{
    if first && is(text, b"\"_id\"") {
        Name::Plain
    } else {
        Name::Foreign
    }
}
