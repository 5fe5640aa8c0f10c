//! Finds the missing leaves that a response to `_revs_diff` names.
ghost use Rattle.std.specs.Prelude.{◌≡◌, [], IfOk, option_map};
ghost use Rattle.json.specs.Find.{as_str};
ghost use Rattle.json.specs.Value.{value_view, items_view, members_view};
ghost use Rattle.relay_core.specs.Views.{texts_of, doc_view, docs_view};
ghost use Rattle.relay_responses.specs.Read.{each_item};
ghost use Rattle.relay_responses.specs.Diffs.{last_members, missing_at, each_missing, only_named, diff_in};
ghost use Rattle.relay_responses.specs.Maps.{values_in};

use crate::values::items_at;
use indexmap::IndexMap;
use json::Value;
use relay_core::{DocLeaves, missing_of, name_all};
use std::alloc::{AllocError, Global};

/// The values of an object's members, by member name.
type Members<'v, 'a> = IndexMap<&'a str, &'v Value<'a>>;

/// Returns the members of an object by name. If several members have the same name, the result has the last of these
/// members.
fn last_members<'v, 'a>(
    alloc: Global,
    members: &'v Vec<(&'a str, Value<'a>)>,
) -> Result<Members<'v, 'a>, AllocError>
    ensures { IfOk result (λ m. values_in m.entries ≡ last_members [] (members_view members.now.items)) }
{
    let mut found = IndexMap::new(alloc);
    for member in members {
        found.insert(member.0, &member.1)?;
    }
    Ok(found)
}

/// Returns the strings in a JSON list, or `None` if an item of the list is not a string.
fn strings_of(alloc: Global, items: &Vec<Value<'_>>) -> Result<Option<Vec<String>>, AllocError>
    ensures { IfOk result (λ o. option_map (λ v. texts_of v.items) o ≡ each_item as_str (items_view items.now.items)) }
{
    let mut strings = Vec::new(alloc);
    for item in items {
        let Some(text) = item.as_str() else {
            return Ok(None);
        };
        strings.push(String::from_str(alloc, text)?)?;
    }
    Ok(Some(strings))
}

/// Returns the missing leaves of a document, or `None` if the JSON value does not list leaves.
fn missing_at(alloc: Global, id: &str, value: &Value<'_>) -> Result<Option<DocLeaves>, AllocError>
    ensures { IfOk result (λ o. option_map doc_view o ≡ missing_at (id.now, value_view value.now)) }
{
    let Some(items) = items_at(value, "missing") else {
        return Ok(None);
    };
    let Some(revs) = strings_of(alloc, items)? else {
        return Ok(None);
    };
    let id = String::from_str(alloc, id)?;
    Ok(Some(DocLeaves { id, revs }))
}

/// Returns the missing leaves that an object's members name, or `None` if a member does not list leaves.
fn each_missing(
    alloc: Global,
    members: &Members<'_, '_>,
) -> Result<Option<Vec<DocLeaves>>, AllocError>
    ensures { IfOk result (λ o. option_map (λ v. docs_view v.items) o ≡ each_missing (values_in members.now.entries)) }
{
    let mut docs = Vec::new(alloc);
    for i in 0..members.len() {
        let Some((id, value)) = members.get_index(i) else {
            return Ok(Some(docs));
        };
        match missing_at(alloc, id, value)? {
            Some(doc) => docs.push(doc)?,
            None => return Ok(None),
        }
    }
    Ok(Some(docs))
}

/// Returns the requested leaves that a response names as missing, or `None` if the response names a leaf that was not
/// requested.
fn only_named(
    alloc: Global,
    docs: &[DocLeaves],
    named: &[DocLeaves],
) -> Result<Option<Vec<DocLeaves>>, AllocError>
    ensures { IfOk result (λ o. option_map (λ v. docs_view v.items) o ≡ only_named (docs_view docs.now) (docs_view named.now)) }
{
    if !name_all(alloc, docs, named)? {
        return Ok(None);
    }
    let missing = missing_of(alloc, docs, named)?;
    Ok(Some(missing))
}

/// Returns the leaves that a response to `_revs_diff` names as missing, in the order of the request. Returns `None` if
/// the response names a leaf that was not requested.
pub(crate) fn diff_of(
    alloc: Global,
    docs: &[DocLeaves],
    value: &Value<'_>,
) -> Result<Option<Vec<DocLeaves>>, AllocError>
    ensures { IfOk result (λ o. option_map (λ v. docs_view v.items) o ≡ diff_in (docs_view docs.now) (value_view value.now)) }
{
    let Value::Object(members) = value else {
        return Ok(None);
    };
    let members = last_members(alloc, members)?;
    let Some(named) = each_missing(alloc, &members)? else {
        return Ok(None);
    };
    only_named(alloc, docs, named.as_slice())
}
