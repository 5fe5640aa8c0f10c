//! Parsing lines.
ghost use Rattle.std.specs.Prelude.{◌≡◌, ℕ, List, Bool, IfOk, IfSome, IfNone, true, false, string_bytes};
ghost use Rattle.std.specs.List.{AllByRecursion};
ghost use Rattle.rev_core.specs.Rev.{IsRev, RevId};
ghost use Rattle.output_parser.specs.Lines.{BeginsWith, IsDocLine, IsLeafLine, IsListed, LeafParts, ListedParts, Tells, TellsMore, finding_text};
ghost use Rattle.output_parser.specs.Undrawn.{other_of};

use crate::cuts::{behind, cut_first, cut_last, cut_named};
use crate::logs::read_log;
use crate::numbers::number;
use crate::revs::{falls_by_one, read_revs, revision};
use crate::rows::read_row;
use crate::told::{Finding, Found, Table, Told};
use crate::undrawn::is_undrawn;
use rev_core::Rev;
use std::alloc::{AllocError, Global};
use std::str;

/// Parses a line of a script's output (docs/PROFILE.md, "Answers" and "Pictures"). The call returns a variant of `Told`
/// if and only if the line has the format of this variant.
pub fn read_line(alloc: Global, line: &[u8]) -> Result<Told, AllocError>
    ensures { IfOk result (λ told. Tells line.now told) }
{
    if let Some((id, count)) = read_doc(line) {
        let id = String::from_str(alloc, id)?;
        return Ok(Told::Document { id, count });
    }
    if let Some((live, revs)) = read_leaf(alloc, line)? {
        return Ok(Told::Leaf { live, revs });
    }
    if let Some((id, revs)) = read_listed(alloc, line, b"conflict ")? {
        let id = String::from_str(alloc, id)?;
        return Ok(Told::Conflict { id, revs });
    }
    read_more(alloc, line)
}

/// Parses a line of a script's output that does not describe a revision tree.
fn read_more(alloc: Global, line: &[u8]) -> Result<Told, AllocError>
    ensures { IfOk result (λ told. TellsMore line.now told) }
{
    if let Some(found) = read_found(alloc, line, Finding::Missing)? {
        return Ok(Told::Found(found));
    }
    if let Some(found) = read_found(alloc, line, Finding::Contradicts)? {
        return Ok(Told::Found(found));
    }
    if let Some(found) = read_found(alloc, line, Finding::Differs)? {
        return Ok(Told::Found(found));
    }
    if let Some(row) = read_row(alloc, line, Table::Compared)? {
        return Ok(Told::Row(row));
    }
    if let Some(row) = read_row(alloc, line, Table::Info)? {
        return Ok(Told::Row(row));
    }
    if let Some(row) = read_row(alloc, line, Table::Session)? {
        return Ok(Told::Row(row));
    }
    match read_log(alloc, line)? {
        Some(log) => Ok(Told::Log(log)),
        None => Ok(other_of(line)),
    }
}

/// Parses a line that pictures do not show. Returns `Other` if the line begins like a line that `couch_replicate`
/// prints, and otherwise `Unknown`.
fn other_of(line: &[u8]) -> Told
    ensures { result ≡ other_of line.now }
{
    if is_undrawn(line) {
        Told::Other
    } else {
        Told::Unknown
    }
}

/// Parses a line of the output of `compare` about a document.
fn read_found(alloc: Global, line: &[u8], finding: Finding) -> Result<Option<Found>, AllocError>
    ensures some { IfOk result (λ o. IfSome o (λ f. (f.finding ≡ finding)
        × IsListed (finding_text finding) line.now (string_bytes f.id) f.revs.items)) }
    ensures none { IfOk result (λ o. IfNone o ((id : List ℕ) (revs : List RevId)
        → IsListed (finding_text finding) line.now id revs → ⊥)) }
{
    let Some((id, revs)) = read_listed(alloc, line, finding.text().as_bytes())? else {
        return Ok(None);
    };
    let id = String::from_str(alloc, id)?;
    Ok(Some(Found { finding, id, revs }))
}

/// Parses a `doc` line, and returns the document's id and number of leaves.
fn read_doc(line: &[u8]) -> Option<(&str, u64)>
    ensures some { IfSome result (λ x. IsDocLine line.now x.0.now x.1) }
    ensures none { IfNone result ((id : List ℕ) (count : ℕ) → IsDocLine line.now id count → ⊥) }
{
    let rest = behind(line, b"doc ")?;
    let (rest, _) = cut_named(rest, b" revs")?;
    let (rest, count) = cut_named(rest, b" leaves")?;
    let (id, _) = cut_named(rest, b" winner")?;
    let count = number(count)?;
    match str::from_utf8(id) {
        Ok(id) => Some((id, count)),
        Err(_) => None,
    }
}

/// Parses a `leaf` line, and returns whether the leaf is live, and the leaf's ancestry.
fn read_leaf(alloc: Global, line: &[u8]) -> Result<Option<(bool, Vec<Rev>)>, AllocError>
    ensures some { IfOk result (λ o. IfSome o (λ x. IsLeafLine line.now x.0 x.1.items)) }
    ensures none { IfOk result (λ o. IfNone o ((live : Bool) (revs : List RevId) → IsLeafLine line.now live revs → ⊥)) }
{
    let Some((own, live, list)) = leaf_parts(line) else {
        return Ok(None);
    };
    let Some(revs) = read_revs(alloc, list)? else {
        return Ok(None);
    };
    if !falls_by_one(revs.as_slice()) {
        return Ok(None);
    }
    if !begins_with(revs.as_slice(), own) {
        return Ok(None);
    }
    Ok(Some((live, revs)))
}

/// Returns the parts of a `leaf` line: the text of the leaf, whether the leaf is live, and the text of the leaf's
/// ancestry.
fn leaf_parts(line: &[u8]) -> Option<(&[u8], bool, &[u8])>
    ensures some { IfSome result (λ x. LeafParts line.now x.0.now x.1 x.2.now) }
    ensures none { IfNone result ((own : List ℕ) (live : Bool) (list : List ℕ) → LeafParts line.now own live list → ⊥) }
{
    let rest = behind(line, b"leaf ")?;
    let (own, rest) = cut_first(rest, b' ')?;
    if let Some(list) = behind(rest, b"live ") {
        return Some((own, true, list));
    }
    let list = behind(rest, b"deleted ")?;
    Some((own, false, list))
}

/// Whether the first revision of a list has the given text.
fn begins_with(revs: &[Rev], own: &[u8]) -> bool
    ensures yes { result ≡ true → BeginsWith own.now revs.now }
    ensures no { result ≡ false → AllByRecursion IsRev revs.now → BeginsWith own.now revs.now → ⊥ }
{
    if revs.is_empty() {
        return false;
    }
    let Some(own) = revision(own) else {
        return false;
    };
    revs[0] == own
}

/// Parses a line that has a given first word, a document id and revisions. Returns `None` if the line does not consist
/// of `word`, a document id and revisions.
fn read_listed<'a>(
    alloc: Global,
    line: &'a [u8],
    word: &[u8],
) -> Result<Option<(&'a str, Vec<Rev>)>, AllocError>
    ensures some { IfOk result (λ o. IfSome o (λ x. IsListed word.now line.now x.0.now x.1.items)) }
    ensures none { IfOk result (λ o. IfNone o ((id : List ℕ) (revs : List RevId) → IsListed word.now line.now id revs → ⊥)) }
{
    let Some((id, list)) = listed_parts(line, word) else {
        return Ok(None);
    };
    match read_revs(alloc, list)? {
        Some(revs) => Ok(Some((id, revs))),
        None => Ok(None),
    }
}

/// Splits the text after a line's first word into a document id and the text of revisions.
fn listed_parts<'a>(line: &'a [u8], word: &[u8]) -> Option<(&'a str, &'a [u8])>
    ensures some { IfSome result (λ x. ListedParts word.now line.now x.0.now x.1.now) }
    ensures none { IfNone result ((id list : List ℕ) → ListedParts word.now line.now id list → ⊥) }
{
    let rest = behind(line, word)?;
    let (id, list) = cut_last(rest, b' ')?;
    match str::from_utf8(id) {
        Ok(id) => Some((id, list)),
        Err(_) => None,
    }
}
