//! Parsing logs.
ghost use Rattle.std.specs.Prelude.{◌≡◌, ◌∷◌, ℕ, List, IfOk, IfSome, IfNone, get_or, map, string_bytes, []};
ghost use Rattle.std.specs.Str.{IsUtf8};
ghost use Rattle.output_parser.specs.Words.{InTurn, IsNumber};
ghost use Rattle.output_parser.specs.Logs.{IsEntry, IsHead, IsHistory, IsLog, IsMember, Logged, Values, all_members, logged, texts_of};

use crate::cuts::{behind, cut_first};
use crate::numbers::number;
use crate::told::{Entry, Log, Member};
use std::alloc::{AllocError, Global};
use std::str;

/// Parses a log, or returns `None` if the line is not a log.
pub fn read_log(alloc: Global, line: &[u8]) -> Result<Option<Log>, AllocError>
    ensures some { IfOk result (λ o. IfSome o (λ l. IsLog line.now (string_bytes l.id) (map logged l.entries.items))) }
    ensures none { IfOk result (λ o. IfNone o ((id : List ℕ) (entries : List Logged) → IsLog line.now id entries → ⊥)) }
{
    let Some((id, text)) = log_head(line) else {
        return Ok(None);
    };
    let Some(entries) = read_entries(alloc, text)? else {
        return Ok(None);
    };
    Ok(Some(Log {
        id: String::from_str(alloc, id)?,
        entries,
    }))
}

/// Parses the start of a log. Returns the replication id, and the text after the opening bracket of the list of
/// sessions. Returns `None` unless the line begins with `{"_id":"_local/ID","history":[` and the replication id ID is
/// UTF-8.
fn log_head(line: &[u8]) -> Option<(&str, &[u8])>
    ensures some { IfSome result (λ x. IsHead line.now x.0.now x.1.now) }
    ensures none { IfNone result ((id text : List ℕ) → IsHead line.now id text → ⊥) }
{
    let rest = behind(line, b"{\"_id\":\"_local/")?;
    let (id, rest) = cut_first(rest, b'"')?;
    let text = behind(rest, b",\"history\":[")?;
    match str::from_utf8(id) {
        Ok(id) => Some((id, text)),
        Err(_) => None,
    }
}

/// Parses the sessions of a log. Returns `None` if the text is not a list of sessions.
fn read_entries(alloc: Global, text: &[u8]) -> Result<Option<Vec<Entry>>, AllocError>
    ensures some { IfOk result (λ o. IfSome o (λ v. IsHistory text.now (map logged v.items))) }
    ensures none { IfOk result (λ o. IfNone o ((entries : List Logged) → IsHistory text.now entries → ⊥)) }
{
    let Some((first, mut rest)) = read_entry(alloc, text)? else {
        return Ok(None);
    };
    let mut entries = Vec::new(alloc);
    entries.push(first)?;
    while let Some(begins) = behind(rest, b",") {
        let Some((entry, after)) = read_entry(alloc, begins)? else {
            return Ok(None);
        };
        entries.push(entry)?;
        rest = after;
    }
    match behind(rest, b"],\"replication_id_version\":3,\"session_id\":\"") {
        Some(_) => Ok(Some(entries)),
        None => Ok(None),
    }
}

/// Parses a session at the start of a text. Returns the session, and the text after the session's closing brace.
/// Returns `None` if the text does not start with a session.
fn read_entry(alloc: Global, text: &[u8]) -> Result<Option<(Entry, &[u8])>, AllocError>
    ensures some { IfOk result (λ o. IfSome o (λ x. IsEntry (logged x.0) x.1.now text.now)) }
    ensures none { IfOk result (λ o. IfNone o ((e : Logged) (after : List ℕ) → IsEntry e after text.now → ⊥)) }
{
    let Some((values, rest)) = read_values(alloc, text, members())? else {
        return Ok(None);
    };
    let Some(after) = behind(rest, b"}") else {
        return Ok(None);
    };
    match read_told(alloc, values.as_slice())? {
        Some(entry) => Ok(Some((entry, after))),
        None => Ok(None),
    }
}

/// Parses the members of a session at the start of a text. Returns the members' values, and the text after the members.
/// Returns `None` if the text does not start with the members of a session.
fn read_values<'a>(
    alloc: Global,
    text: &'a [u8],
    members: &[Member],
) -> Result<Option<(Vec<&'a [u8]>, &'a [u8])>, AllocError>
    ensures some { IfOk result (λ o. IfSome o (λ x. InTurn IsMember members.now (texts_of x.0.items) x.1.now text.now)) }
    ensures none { IfOk result (λ o. IfNone o ((values : List (List ℕ)) (rest : List ℕ)
        → InTurn IsMember members.now values rest text.now → ⊥)) }
{
    let mut values = Vec::new(alloc);
    let mut rest = text;
    for i in 0..members.len() {
        let Some((value, after)) = cut_member(rest, members[i]) else {
            return Ok(None);
        };
        values.push(value)?;
        rest = after;
    }
    Ok(Some((values, rest)))
}

/// Parses the member `member` at the start of a text. Returns the member's value, and the text after the member.
/// Returns `None` if the text does not start with the given member.
fn cut_member(text: &[u8], member: Member) -> Option<(&[u8], &[u8])>
    ensures some { IfSome result (λ x. IsMember member x.0.now x.1.now text.now) }
    ensures none { IfNone result ((value after : List ℕ) → IsMember member value after text.now → ⊥) }
{
    let rest = behind(text, member.text().as_bytes())?;
    cut_first(rest, member.end())
}

/// The members of a session in a log, in the order in which a script prints them.
fn members() -> &'static [Member]
    ensures { result.now ≡ all_members }
{
    &[
        Member::Failed,
        Member::Read,
        Member::Written,
        Member::End,
        Member::EndTime,
        Member::Checked,
        Member::Found,
        Member::Recorded,
        Member::Session,
        Member::Start,
        Member::StartTime,
    ]
}

/// Builds a session from the values of the session's members. Returns `None` if a value is invalid.
fn read_told(alloc: Global, values: &[&[u8]]) -> Result<Option<Entry>, AllocError>
    ensures some { IfOk result (λ o. IfSome o (λ e. Values (texts_of values.now) (logged e))) }
    ensures none { IfOk result (λ o. IfNone o ((e : Logged) → Values (texts_of values.now) e → ⊥)) }
{
    let Some((session, begun)) = texts(values) else {
        return Ok(None);
    };
    let Some((failed, read, written)) = counts(values) else {
        return Ok(None);
    };
    Ok(Some(Entry {
        session: String::from_str(alloc, session)?,
        begun: String::from_str(alloc, begun)?,
        read,
        written,
        failed,
    }))
}

/// Returns the session id and the start time, given the values of a session's members.
fn texts<'a>(values: &[&'a [u8]]) -> Option<(&'a str, &'a str)>
    ensures some { IfSome result (λ x. (get_or (texts_of values.now) 8 [] ≡ x.0.now) × (get_or (texts_of values.now) 10 [] ≡ x.1.now)
        × IsUtf8 x.0.now × IsUtf8 x.1.now) }
    ensures none { IfNone result (IsUtf8 (get_or (texts_of values.now) 8 []) → IsUtf8 (get_or (texts_of values.now) 10 []) → ⊥) }
{
    let Ok(session) = str::from_utf8(value_at(values, 8)) else {
        return None;
    };
    match str::from_utf8(value_at(values, 10)) {
        Ok(begun) => Some((session, begun)),
        Err(_) => None,
    }
}

/// Parses the numbers of failed writes, read documents and written documents from the values of a session's members.
fn counts(values: &[&[u8]]) -> Option<(u64, u64, u64)>
    ensures some { IfSome result (λ x. IsNumber (get_or (texts_of values.now) 0 []) x.0 × IsNumber (get_or (texts_of values.now) 1 []) x.1
        × IsNumber (get_or (texts_of values.now) 2 []) x.2) }
    ensures none { IfNone result ((failed read written : ℕ) → IsNumber (get_or (texts_of values.now) 0 []) failed
        → IsNumber (get_or (texts_of values.now) 1 []) read → IsNumber (get_or (texts_of values.now) 2 []) written → ⊥) }
{
    let failed = number(value_at(values, 0))?;
    let read = number(value_at(values, 1))?;
    let written = number(value_at(values, 2))?;
    Some((failed, read, written))
}

/// Returns the value at an index, or an empty text if the list has no such index.
fn value_at<'a>(values: &[&'a [u8]], place: usize) -> &'a [u8]
    ensures { result.now ≡ get_or (texts_of values.now) place [] }
{
    match values.get(place) {
        Some(value) => value,
        None => &[],
    }
}
