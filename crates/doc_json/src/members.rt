//! Members of JSON objects, with and without a leading `_`.
ghost use Rattle.std.specs.Prelude.{◌≡◌, ◌||◌, codes, option_map};
ghost use Rattle.std.specs.Option.{option_or};
ghost use Rattle.serde_json.specs.Data.{no_members, member as one_member};
ghost use Rattle.serde_json.specs.Find.{get_member};
ghost use Rattle.serde_json.specs.Written.{members_have_float};
ghost use Rattle.std.specs.Str.{bytes_eq};
ghost use Rattle.std.specs.List.{list_any};
ghost use Rattle.doc_json.specs.Members.{plain_members, has_special, has_unknown, is_unknown, special_names};

use crate::doc_id::is_special;
use crate::json_value::JsonValue;
use json_values::is_same_text;

/// Whether an object has a member whose name begins with `_`.
pub(crate) fn has_special<'v, V: JsonValue<'v>>(members: &'v V::Object) -> bool
    ensures { result ≡ has_special (V.members_seen members.now) }
{
    let mut left = V::walk(members);
    while let Some((name, _)) = V::next_member(&mut left) {
        if is_special(name) {
            return true;
        }
    }
    false
}

/// The members `_id`, `_attachments`, `_deleted`, `_rev` and `_revisions` of a document. The field `has_unknown` says
/// whether a member that begins with `_` is unknown. The field `has_fraction` says whether a member without a leading
/// `_` is or contains a number that is neither an i64 nor a u64.
#[derive_where(Clone, Copy)]
pub(crate) struct FoundMembers<'v, V> {
    pub(crate) id: Option<&'v V>,
    pub(crate) attachments: Option<&'v V>,
    pub(crate) deleted: Option<&'v V>,
    pub(crate) rev: Option<&'v V>,
    pub(crate) revisions: Option<&'v V>,
    pub(crate) has_unknown: bool,
    pub(crate) has_fraction: bool,
}

/// Scans an object's members once. Finds the members that begin with `_`, and checks the numbers in all other members.
pub(crate) fn find_members<'v, V: JsonValue<'v>>(members: &'v V::Object) -> FoundMembers<'v, V>
    ensures id { option_map (λ v. V.seen v.now) result.id
        ≡ get_member (codes "_id") (V.members_seen members.now) }
    ensures attachments { option_map (λ v. V.seen v.now) result.attachments
        ≡ get_member (codes "_attachments") (V.members_seen members.now) }
    ensures deleted { option_map (λ v. V.seen v.now) result.deleted
        ≡ get_member (codes "_deleted") (V.members_seen members.now) }
    ensures rev { option_map (λ v. V.seen v.now) result.rev
        ≡ get_member (codes "_rev") (V.members_seen members.now) }
    ensures revisions { option_map (λ v. V.seen v.now) result.revisions
        ≡ get_member (codes "_revisions") (V.members_seen members.now) }
    ensures unknown { result.has_unknown ≡ has_unknown (V.members_seen members.now) }
    ensures fraction { result.has_fraction
        ≡ members_have_float (plain_members (V.members_seen members.now)) }
{
    let mut found = FoundMembers {
        id: None,
        attachments: None,
        deleted: None,
        rev: None,
        revisions: None,
        has_unknown: false,
        has_fraction: false,
    };
    let mut left = V::walk(members);
    while let Some((name, member)) = V::next_member(&mut left) {
        found = looked(found, name, member);
    }
    found
}

/// Adds one member of a document to the found members.
fn looked<'v, V: JsonValue<'v>>(
    found: FoundMembers<'v, V>,
    name: &str,
    member: &'v V,
) -> FoundMembers<'v, V>
    ensures id { option_map (λ v. V.seen v.now) result.id
        ≡ option_or (option_map (λ v. V.seen v.now) found.entry.id)
        (get_member (codes "_id") (one_member name.now (V.seen member.now) no_members)) }
    ensures attachments { option_map (λ v. V.seen v.now) result.attachments
        ≡ option_or (option_map (λ v. V.seen v.now) found.entry.attachments)
        (get_member (codes "_attachments") (one_member name.now (V.seen member.now) no_members)) }
    ensures deleted { option_map (λ v. V.seen v.now) result.deleted
        ≡ option_or (option_map (λ v. V.seen v.now) found.entry.deleted)
        (get_member (codes "_deleted") (one_member name.now (V.seen member.now) no_members)) }
    ensures rev { option_map (λ v. V.seen v.now) result.rev
        ≡ option_or (option_map (λ v. V.seen v.now) found.entry.rev)
        (get_member (codes "_rev") (one_member name.now (V.seen member.now) no_members)) }
    ensures revisions { option_map (λ v. V.seen v.now) result.revisions
        ≡ option_or (option_map (λ v. V.seen v.now) found.entry.revisions)
        (get_member (codes "_revisions") (one_member name.now (V.seen member.now) no_members)) }
    ensures unknown { result.has_unknown ≡ (found.entry.has_unknown || is_unknown name.now) }
    ensures fraction { result.has_fraction ≡ (found.entry.has_fraction
        || members_have_float (plain_members (one_member name.now (V.seen member.now) no_members))) }
{
    if is_special(name) {
        return with_special(found, name, member);
    }
    FoundMembers {
        id: found.id,
        attachments: found.attachments,
        deleted: found.deleted,
        rev: found.rev,
        revisions: found.revisions,
        has_unknown: found.has_unknown,
        has_fraction: found.has_fraction || member.has_fraction(),
    }
}

/// Adds one member that begins with `_` to the found members.
fn with_special<'v, V: JsonValue<'v>>(
    found: FoundMembers<'v, V>,
    name: &str,
    member: &'v V,
) -> FoundMembers<'v, V>
    ensures id { option_map (λ v. V.seen v.now) result.id
        ≡ option_or (option_map (λ v. V.seen v.now) found.entry.id)
        (get_member (codes "_id") (one_member name.now (V.seen member.now) no_members)) }
    ensures attachments { option_map (λ v. V.seen v.now) result.attachments
        ≡ option_or (option_map (λ v. V.seen v.now) found.entry.attachments)
        (get_member (codes "_attachments") (one_member name.now (V.seen member.now) no_members)) }
    ensures deleted { option_map (λ v. V.seen v.now) result.deleted
        ≡ option_or (option_map (λ v. V.seen v.now) found.entry.deleted)
        (get_member (codes "_deleted") (one_member name.now (V.seen member.now) no_members)) }
    ensures rev { option_map (λ v. V.seen v.now) result.rev
        ≡ option_or (option_map (λ v. V.seen v.now) found.entry.rev)
        (get_member (codes "_rev") (one_member name.now (V.seen member.now) no_members)) }
    ensures revisions { option_map (λ v. V.seen v.now) result.revisions
        ≡ option_or (option_map (λ v. V.seen v.now) found.entry.revisions)
        (get_member (codes "_revisions") (one_member name.now (V.seen member.now) no_members)) }
    ensures unknown { result.has_unknown ≡ (found.entry.has_unknown || is_unknown name.now) }
    ensures fraction { result.has_fraction ≡ found.entry.has_fraction }
{
    FoundMembers {
        id: kept(found.id, name, "_id", member),
        attachments: kept(found.attachments, name, "_attachments", member),
        deleted: kept(found.deleted, name, "_deleted", member),
        rev: kept(found.rev, name, "_rev", member),
        revisions: kept(found.revisions, name, "_revisions", member),
        has_unknown: found.has_unknown || is_unknown(name),
        has_fraction: found.has_fraction,
    }
}

/// Returns `found` if `found` is not `None`. Otherwise, returns `member` if the name `name` is `wanted`, or else
/// `None`.
fn kept<'v, V: JsonValue<'v>>(
    found: Option<&'v V>,
    name: &str,
    wanted: &str,
    member: &'v V,
) -> Option<&'v V>
    ensures { option_map (λ v. V.seen v.now) result ≡ option_or (option_map (λ v. V.seen v.now) found.entry)
        (get_member wanted.now (one_member name.now (V.seen member.now) no_members)) }
{
    if found.is_some() {
        return found;
    }
    if is_same_text(name, wanted) {
        Some(member)
    } else {
        None
    }
}

/// Whether a name begins with `_` and is not the name of a member that a document may have.
pub(crate) fn is_unknown(name: &str) -> bool
    ensures { result ≡ is_unknown name.now }
{
    if !is_special(name) {
        return false;
    }
    !is_special_name(name)
}

/// Whether a name is one of the special names that a document may have.
fn is_special_name(name: &str) -> bool
    ensures { result ≡ list_any (bytes_eq name.now) special_names }
{
    is_same_text(name, "_id")
        || is_same_text(name, "_rev")
        || is_same_text(name, "_revisions")
        || is_same_text(name, "_deleted")
        || is_same_text(name, "_conflicts")
        || is_same_text(name, "_deleted_conflicts")
        || is_same_text(name, "_revs_info")
        || is_same_text(name, "_local_seq")
}
