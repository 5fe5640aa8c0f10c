//! Reads the members `_rev` and `_revisions` of a document.
ghost use Rattle.std.specs.Prelude.{◌≡◌, ◌≤◌, [], ◌∷◌, List, Some, Ok, Err, IfSome, IfNone, IsOk, IfOk, IfErr, OnOk};
ghost use Rattle.std.specs.Prelude.{codes, map, length, is_some, is_ok, option_map, option_and_then, slice_get};
ghost use Rattle.std.specs.Ordering.{eq_by_cmp};
ghost use Rattle.serde_json.specs.View.{items_of};
ghost use Rattle.serde_json.specs.Find.{get, as_array, as_str};
ghost use Rattle.rev_core.specs.Rev.{RevId, rev_cmp};
ghost use Rattle.rev_core.specs.Ancestry.{numbered};
ghost use Rattle.doc_json.specs.Revisions.{rev_member, with_revisions, revisions_beside, matched, agrees, numbered_beside, start_of, numbered_from, sigs_of, sig_of};

use crate::fault::DocFault;
use crate::json_value::JsonValue;
use rev_core::{Ancestry, Rev, Sig};
use std::alloc::{AllocError, Global};

/// Reads the member `_rev` of a document, if the document has this member.
pub(crate) fn read_rev<'v, V: JsonValue<'v>>(member: Option<&'v V>) -> Result<Option<Rev>, DocFault>
    ensures { result ≡ rev_member (option_map (λ v. V.seen v.now) member.entry) }
{
    let Some(value) = member else {
        return Ok(None);
    };
    let Some(text) = value.as_str() else {
        return Err(DocFault::NoRev);
    };
    match Rev::parse(text.as_bytes()) {
        Ok(rev) => Ok(Some(rev)),
        Err(_) => Err(DocFault::NoRev),
    }
}

/// Reads the member `_revisions` of a document, given the value of the member `_rev`. The error of the inner `Result`
/// means that an allocation failed.
pub(crate) fn read_revisions<'v, V: JsonValue<'v>>(
    alloc: Global,
    member: Option<&'v V>,
    rev: Option<Rev>,
) -> Result<Result<Ancestry, AllocError>, DocFault>
    ensures ok { OnOk result (IsOk (with_revisions (option_map (λ v. V.seen v.now) member.entry) rev)) }
    ensures built { IfOk result (λ r. IfOk r
        (λ a. with_revisions (option_map (λ v. V.seen v.now) member.entry) rev ≡ Ok a)) }
    ensures err { IfErr result
        (λ e. with_revisions (option_map (λ v. V.seen v.now) member.entry) rev ≡ Err e) }
{
    match member {
        Some(value) => read_numbered(alloc, value, rev),
        None => match rev {
            Some(rev) => Ok(alone(alloc, rev)),
            None => Err(DocFault::NoRev),
        },
    }
}

/// Creates the ancestry of a single revision.
pub(crate) fn alone(alloc: Global, rev: Rev) -> Result<Ancestry, AllocError>
    ensures { IfOk result (λ a. a ≡ rev ∷ []) }
{
    let _generation = rev.generation();
    let mut revs = Vec::with_capacity(alloc, 1)?;
    revs.push_reserved(rev);
    Ok(Ancestry::from_revs(revs))
}

/// Reads the value of the member `_revisions`, given the value of the member `_rev`. The error of the inner `Result`
/// means that an allocation failed.
fn read_numbered<'v, V: JsonValue<'v>>(
    alloc: Global,
    value: &'v V,
    rev: Option<Rev>,
) -> Result<Result<Ancestry, AllocError>, DocFault>
    ensures ok { OnOk result (IsOk (revisions_beside rev (V.seen value.now))) }
    ensures built { IfOk result (λ r. IfOk r (λ a. revisions_beside rev (V.seen value.now) ≡ Ok a)) }
    ensures err { IfErr result (λ e. revisions_beside rev (V.seen value.now) ≡ Err e) }
{
    let Some(start) = start_of(value) else {
        return Err(DocFault::BadRevisions);
    };
    let Some(ids) = ids_of(value) else {
        return Err(DocFault::BadRevisions);
    };
    match numbered_from(alloc, start, ids) {
        Ok(Some(ancestry)) => matched(ancestry, rev),
        Ok(None) => Err(DocFault::BadRevisions),
        // The returned error must not depend on whether an allocation failed.
        Err(refused) => match check_numbered(start, ids, rev) {
            Ok(()) => Ok(Err(refused)),
            Err(fault) => Err(fault),
        },
    }
}

/// Returns the ancestry if `_rev` is missing or is the ancestry's newest revision, and otherwise the error
/// `RevMismatch`.
pub(crate) fn matched(
    ancestry: Ancestry,
    rev: Option<Rev>,
) -> Result<Result<Ancestry, AllocError>, DocFault>
    ensures ok { IfOk result (λ r. (r ≡ Ok ancestry) × (matched rev ancestry ≡ Ok ancestry)) }
    ensures err { IfErr result (λ e. matched rev ancestry ≡ Err e) }
{
    if let Some(rev) = rev {
        let is_newest = rev == ancestry.head();
        if !is_newest {
            return Err(DocFault::RevMismatch);
        }
    }
    Ok(Ok(ancestry))
}

/// Reads an ancestry from a list of signatures and the generation `start` of the ancestry's newest revision. Returns
/// `None` if the generation `start` and the list of signatures do not form an ancestry.
fn numbered_from<'v, V: JsonValue<'v>>(
    alloc: Global,
    start: u64,
    ids: &'v [V],
) -> Result<Option<Ancestry>, AllocError>
    ensures some { IfOk result (λ o. IfSome o
        (λ a. numbered_from (Some start) (sigs_of (items_of (map V.seen ids.now))) ≡ Ok a)) }
    ensures none { IfOk result (λ o. IfNone o
        (numbered_from (Some start) (sigs_of (items_of (map V.seen ids.now))) ≡ Err DocFault.BadRevisions)) }
{
    let count = ids.len() as u64;
    if start > 4_294_967_295 || count < 1 || count > start {
        return Ok(None);
    }
    match numbered(alloc, start as u32, ids)? {
        Some(revs) => Ok(Some(Ancestry::from_revs(revs))),
        None => Ok(None),
    }
}

/// Reads a list of signatures as revisions. The first revision has the given generation, and the generations fall by
/// one.
fn numbered<'v, V: JsonValue<'v>>(
    alloc: Global,
    start: u32,
    ids: &'v [V],
) -> Result<Option<Vec<Rev>>, AllocError>
    requires { length ids.now ≤ start }
    ensures { IfOk result (λ o. option_map (λ revs. revs.items) o
        ≡ option_map (numbered start) (sigs_of (items_of (map V.seen ids.now)))) }
{
    let mut revs = Vec::with_capacity(alloc, ids.len())?;
    let mut generation = start;
    for item in ids {
        let Some(sig) = sig_of(item) else {
            return Ok(None);
        };
        revs.push_reserved(Rev::new(generation, sig));
        generation -= 1;
    }
    Ok(Some(revs))
}

/// Checks that the generation `start` and the list of signatures form an ancestry, and that `_rev` is missing or is the
/// newest revision.
fn check_numbered<'v, V: JsonValue<'v>>(
    start: u64,
    ids: &'v [V],
    rev: Option<Rev>,
) -> Result<(), DocFault>
    ensures ok { OnOk result
        (IsOk (numbered_beside rev (Some start) (sigs_of (items_of (map V.seen ids.now))))) }
    ensures err { IfErr result
        (λ e. numbered_beside rev (Some start) (sigs_of (items_of (map V.seen ids.now))) ≡ Err e) }
{
    if !are_ids(start, ids) {
        return Err(DocFault::BadRevisions);
    }
    if !agrees(rev, start, ids) {
        return Err(DocFault::RevMismatch);
    }
    Ok(())
}

/// Returns the number of the member `start`.
fn start_of<'v, V: JsonValue<'v>>(value: &'v V) -> Option<u64>
    ensures { result ≡ start_of (V.seen value.now) }
{
    value.get("start")?.as_number()?.as_u64()
}

/// Returns the list of the member `ids`.
fn ids_of<'v, V: JsonValue<'v>>(value: &'v V) -> Option<&'v [V]>
    ensures { option_map (λ v. items_of (map V.seen v.now)) result
        ≡ option_and_then as_array (get (codes "ids") (V.seen value.now)) }
{
    value.get("ids")?.as_array()
}

/// Whether `start` is a generation, and the list consists of 1 to `start` signatures.
fn are_ids<'v, V: JsonValue<'v>>(start: u64, ids: &'v [V]) -> bool
    ensures { result ≡ is_ok (numbered_from (Some start) (sigs_of (items_of (map V.seen ids.now)))) }
{
    if start > 4_294_967_295 {
        return false;
    }
    if !are_sigs(ids) {
        return false;
    }
    let count = ids.len() as u64;
    1 <= count && count <= start
}

/// Whether each item of a list is a signature.
fn are_sigs<'v, V: JsonValue<'v>>(items: &'v [V]) -> bool
    ensures { result ≡ is_some (sigs_of (items_of (map V.seen items.now))) }
{
    for item in items {
        if sig_of(item).is_none() {
            return false;
        }
    }
    true
}

/// Whether the member `_rev` is missing or is the newest revision of the member `_revisions`.
fn agrees<'v, V: JsonValue<'v>>(rev: Option<Rev>, start: u64, ids: &'v [V]) -> bool
    ensures { (revs : List RevId) → numbered_from (Some start) (sigs_of (items_of (map V.seen ids.now))) ≡ Ok revs
        → result ≡ agrees rev revs }
{
    match rev {
        None => true,
        Some(rev) => match first_sig(ids) {
            Some(sig) => is_revision(rev, start, sig),
            None => false,
        },
    }
}

/// Returns the first item of a list as a signature.
fn first_sig<'v, V: JsonValue<'v>>(items: &'v [V]) -> Option<Sig>
    ensures { result ≡ option_and_then (λ v. sig_of (as_str (V.seen v))) (slice_get items.now 0) }
{
    match items.first() {
        Some(first) => sig_of(first),
        None => None,
    }
}

/// Whether a revision has the given generation and signature.
pub(crate) fn is_revision(rev: Rev, generation: u64, sig: Sig) -> bool
    ensures { result ≡ eq_by_cmp rev_cmp rev (record { generation = generation; sig = sig }) }
{
    let same_sig = rev.sig() == sig;
    u64::from(rev.generation()) == generation && same_sig
}

/// Returns the signature in a JSON value, if the value is a string that is a signature.
fn sig_of<'v, V: JsonValue<'v>>(value: &'v V) -> Option<Sig>
    ensures { result ≡ sig_of (as_str (V.seen value.now)) }
{
    match Sig::parse(value.as_str()?.as_bytes()) {
        Ok(sig) => Some(sig),
        Err(_) => None,
    }
}
