//! The task that prints the leaves that a response of `_revs_diff` names as missing.
ghost use Rattle.std.specs.Prelude.{◌≡◌, ◌++◌, [], List, OnErr, OnOk, IfErr, IfOk, filter, flat_map, is_none, map, option_and_then, option_map, true, false, unwrap_or, ℕ};
ghost use Rattle.script_engine.specs.Faults.{IsFaultOf};
ghost use Rattle.std.specs.List.{list_all};
ghost use Rattle.std.specs.Io.KnownBytes.{Appends};
ghost use Rattle.json.specs.Find.{as_object};
ghost use Rattle.json.specs.Value.{items_view, members_view, value_view};
ghost use Rattle.line_reader.specs.Tasks.{EndsBy, HasPrinted, HasPrintedPart, StepsBy};
ghost use Rattle.journal_lines.specs.Docs.{docs_view};
ghost use Rattle.journal_lines.specs.Lists.{revs_json, texts_of};
ghost use Rattle.journal_tasks.specs.Documents.{add_leaves, has_rev};
ghost use Rattle.journal_tasks.specs.Halves.{is_empty_line};
ghost use Rattle.journal_tasks.specs.Missing.{HasLacked, IsLacking, is_about, missing_among, missing_at, missing_by, missing_line, missing_lines};

use crate::count::Count;
use crate::diff::{add_all, add_entry};
use crate::stored::{has_doc, has_leaf};
use indexmap::IndexMap;
use journal_lines::{Docs, entry_of, items_at, push_leaves, text_of, value_of};
use json::{Scratch, Value};
use line_reader::{LineTask, run_task};
use script_engine::{ScriptFault, ScriptRead, ScriptWrite};
use std::alloc::{AllocError, Global};

/// The task's input is a list of leaves, an empty line and a `_revs_diff` response. If the response names leaves of a
/// document as missing, the task prints a `state` line for this document.
///
/// The task holds in memory the list of leaves and the `_revs_diff` response.
#[derive(Drop)]
pub struct Lacking {
    alloc: Global,
    scratch: Scratch,
    count: Count,
    docs: Docs,
    response: Vec<u8>,
    in_response: bool,
    refused: bool,
}

/// Returns the strings in a JSON list, or `None` if an item of the list is not a string.
fn strings_of(alloc: Global, items: &[Value<'_>]) -> Result<Option<Vec<String>>, AllocError>
    ensures { IfOk result (λ o. option_map (λ v. texts_of v.items) o ≡ revs_json (items_view items.now)) }
{
    let mut strings = Vec::new(alloc);
    for item in items {
        let Some(text) = item.as_str() else {
            return Ok(None);
        };
        strings.push(String::from_str(alloc, text)?)?;
    }
    Ok(Some(strings))
}

/// Returns the revisions that a response lists as missing for one document. Returns `None` if `value` has no list of
/// revisions.
fn missing_at(alloc: Global, value: &Value<'_>) -> Result<Option<Vec<String>>, AllocError>
    ensures { IfOk result (λ o. option_map (λ v. texts_of v.items) o ≡ missing_at (value_view value.now)) }
{
    match items_at(value, "missing") {
        Some(items) => strings_of(alloc, items.as_slice()),
        None => Ok(None),
    }
}

/// Whether a list has all given leaves of a document.
fn are_listed(docs: &Docs, id: &str, revs: &[String]) -> bool
    ensures { result ≡ list_all (has_rev (docs_view docs.now) id.now) (texts_of revs.now) }
{
    for rev in revs {
        if !has_leaf(docs, id, rev.as_str()) {
            return false;
        }
    }
    true
}

/// Adds the revisions that the response lists as missing for the document `id`. Returns true if `value` lists
/// revisions, and the list of leaves has the document with all these revisions.
fn add_missing(
    alloc: Global,
    missing: &mut Docs,
    docs: &Docs,
    id: &str,
    value: &Value<'_>,
) -> Result<bool, AllocError>
    ensures about { IfOk result (λ about. about ≡ is_about (docs_view docs.now) id.now (missing_at (value_view value.now))) }
    ensures missing { IfOk result (λ about. about ≡ true → docs_view missing.new ≡ add_leaves (docs_view missing.old)
        (map (λ rev. (id.now, rev)) (unwrap_or (missing_at (value_view value.now)) []))) }
{
    let Some(revs) = missing_at(alloc, value)? else {
        return Ok(false);
    };
    if !has_doc(docs, id) || !are_listed(docs, id, revs.as_slice()) {
        return Ok(false);
    }
    add_all(alloc, missing, id, revs.as_slice())?;
    Ok(true)
}

/// Returns the leaves that are missing according to the members of a response. Returns `None` if a member does not list
/// leaves of `docs`.
fn missing_among(
    alloc: Global,
    docs: &Docs,
    members: &[(&str, Value<'_>)],
) -> Result<Option<Docs>, AllocError>
    ensures { IfOk result (λ o. option_map docs_view o
        ≡ option_map (add_leaves []) (missing_among (docs_view docs.now) (members_view members.now))) }
{
    let mut missing = IndexMap::new(alloc);
    for member in members {
        if !add_missing(alloc, &mut missing, docs, member.0, &member.1)? {
            return Ok(None);
        }
    }
    Ok(Some(missing))
}

/// Returns the missing leaves that `value` names, or `None` if `value` is not a `_revs_diff` response for `docs`.
fn missing_of(alloc: Global, docs: &Docs, value: &Value<'_>) -> Result<Option<Docs>, AllocError>
    ensures { IfOk result (λ o. option_map docs_view o ≡ option_map (add_leaves [])
        (option_and_then (missing_among (docs_view docs.now)) (as_object (value_view value.now)))) }
{
    let Value::Object(members) = value else {
        return Ok(None);
    };
    missing_among(alloc, docs, members.as_slice())
}

/// Returns the missing leaves that a response names. Returns `None` if the response is not a `_revs_diff` response, or
/// if the response names a leaf that is not in the list.
fn missing_by(
    alloc: Global,
    scratch: &mut Scratch,
    docs: &Docs,
    response: &[u8],
) -> Result<Option<Docs>, AllocError>
    ensures { IfOk result (λ o. option_map docs_view o
        ≡ option_map (add_leaves []) (missing_by (docs_view docs.now) response.now)) }
{
    let Some(text) = text_of(response) else {
        return Ok(None);
    };
    let Some(value) = value_of(alloc, scratch, text)? else {
        return Ok(None);
    };
    let missing = missing_of(alloc, docs, &value)?;
    Ok(missing)
}

/// Returns copies of the revisions of a document that the response names as missing.
fn only(alloc: Global, missing: &Docs, id: &str, revs: &[String]) -> Result<Vec<String>, AllocError>
    ensures { IfOk result (λ found. texts_of found.items
        ≡ filter (has_rev (docs_view missing.now) id.now) (texts_of revs.now)) }
{
    let mut found = Vec::new(alloc);
    for rev in revs {
        if has_leaf(missing, id, rev.as_str()) {
            found.push(String::from_str(alloc, rev.as_str())?)?;
        }
    }
    Ok(found)
}

/// Appends the state line of a document, if the document has missing leaves.
fn push_doc(
    alloc: Global,
    text: &mut Vec<u8>,
    missing: &Docs,
    id: &str,
    revs: &[String],
) -> Result<(), AllocError>
    ensures { OnOk result (text.new.items
        ≡ text.old.items ++ missing_line (has_rev (docs_view missing.now)) (id.now, texts_of revs.now)) }
{
    let found = only(alloc, missing, id, revs)?;
    if found.is_empty() {
        return Ok(());
    }
    push_leaves(alloc, text, "state", "-", id, found.as_slice())
}

/// Appends a `state` line for each document that has missing leaves.
fn push_docs(
    alloc: Global,
    text: &mut Vec<u8>,
    missing: &Docs,
    docs: &Docs,
) -> Result<(), AllocError>
    ensures { OnOk result (text.new.items
        ≡ text.old.items ++ flat_map (missing_line (has_rev (docs_view missing.now))) (docs_view docs.now)) }
{
    for index in 0..docs.len() {
        let Some((id, revs)) = docs.get_index(index) else {
            return Ok(());
        };
        push_doc(alloc, text, missing, id.as_str(), revs.as_slice())?;
    }
    Ok(())
}

impl Lacking {
    /// Creates the task.
    pub fn new(alloc: Global) -> Lacking
        ensures { IsLacking [] [] result }
    {
        Lacking {
            alloc,
            scratch: Scratch::new(alloc),
            count: Count::new(),
            docs: IndexMap::new(alloc),
            response: Vec::new(alloc),
            in_response: false,
            refused: false,
        }
    }

    /// Returns the number (from 1) of the first input line that is not a valid line of a list of leaves.
    pub fn wrong(&self) -> Option<u64>
        ensures { result ≡ self.now.count.wrong }
    {
        self.count.wrong
    }

    /// Whether the second part of the input is missing, or the task rejected it. This part must be a `_revs_diff`
    /// response that names only leaves in the list.
    pub fn is_refused(&self) -> bool
        ensures { result ≡ self.now.refused }
    {
        self.refused
    }

    /// Reads a line of the list.
    fn list_line(&mut self, line: &[u8]) -> Result<(), AllocError>
        requires part { self.old.in_response ≡ false }
        requires line { is_empty_line line.now ≡ false }
        ensures { OnOk result (StepsBy IsLacking self.old line.now [] self.new) }
    {
        self.count.add()?;
        let entry = entry_of(self.alloc, &mut self.scratch, line)?;
        let right = add_entry(self.alloc, &mut self.docs, &entry)?;
        self.count.check(right);
        Ok(())
    }

    /// Reads the empty line between the list and the response.
    fn separator(&mut self, line: &[u8]) -> Result<(), AllocError>
        requires part { self.old.in_response ≡ false }
        requires line { is_empty_line line.now ≡ true }
        ensures { OnOk result (StepsBy IsLacking self.old line.now [] self.new) }
    {
        self.count.add()?;
        self.in_response = true;
        Ok(())
    }

    /// Reads a line of the response.
    fn response_line(&mut self, line: &[u8]) -> Result<(), AllocError>
        requires part { self.old.in_response ≡ true }
        ensures { OnOk result (StepsBy IsLacking self.old line.now [] self.new) }
    {
        self.count.add()?;
        self.response.extend_from_slice(line)?;
        self.response.push(b'\n')?;
        Ok(())
    }

    /// Appends a `state` line for each document that has missing leaves according to the stored response.
    fn push(&mut self, text: &mut Vec<u8>) -> Result<(), AllocError>
        ensures text { OnOk result (text.new.items ≡ text.old.items ++ missing_lines (docs_view self.old.docs)
            (missing_by (docs_view self.old.docs) self.old.response.items)) }
        ensures refused { OnOk result (self.old.refused ≡ false → self.new.refused
            ≡ is_none (missing_by (docs_view self.old.docs) self.old.response.items)) }
        ensures count { OnOk result (self.new.count ≡ self.old.count) }
    {
        let response = self.response.as_slice();
        match missing_by(self.alloc, &mut self.scratch, &self.docs, response)? {
            Some(missing) => push_docs(self.alloc, text, &missing, &self.docs),
            None => {
                self.refused = true;
                Ok(())
            }
        }
    }
}

impl LineTask for Lacking {
    ghost steps = { StepsBy IsLacking };

    ghost ends = { EndsBy IsLacking HasLacked };

    fn line(&mut self, line: &[u8], _text: &mut Vec<u8>) -> Result<(), AllocError> {
        if self.in_response {
            return self.response_line(line);
        }
        if line.is_empty() {
            return self.separator(line);
        }
        self.list_line(line)
    }

    fn end(&mut self, rest: &[u8], text: &mut Vec<u8>) -> Result<(), AllocError> {
        if !self.in_response {
            self.count.end(rest)?;
            self.refused = true;
            return Ok(());
        }
        self.response.extend_from_slice(rest)?;
        if !self.count.is_right() {
            return Ok(());
        }
        self.push(text)
    }
}

/// Reads a list of leaves, an empty line and a response of `_revs_diff`. Writes a `state` line for each document of the
/// list that has missing leaves according to the response.
///
/// # Errors
///
/// Returns `Read` if the reader failed in this call, or after 4,294,967,295 reads of at most 65,536 bytes. Returns
/// `Write` if the writer failed in this call. Returns `Memory` if an allocation failed, or if a count is at its
/// maximum.
pub fn lacking_leaves<R: ScriptRead, W: ScriptWrite>(
    alloc: Global,
    reader: &mut R,
    writer: &mut W,
) -> Result<Lacking, ScriptFault>
    ensures took { IfOk result (λ task. (input text : List ℕ) × Appends (R.taken reader.old) (R.taken reader.new) input
        × Appends (W.held writer.old) (W.held writer.new) text × HasPrinted HasLacked input text task) }
    ensures stopped { OnErr result ((input text : List ℕ) × Appends (R.taken reader.old) (R.taken reader.new) input
        × Appends (W.held writer.old) (W.held writer.new) text
        × HasPrintedPart IsLacking HasLacked (R.ended reader.new) input text) }
    ensures ended { OnOk result (R.ended reader.new) }
    ensures counted { OnOk result ((R.failures reader.new ≡ R.failures reader.old)
        × (W.failures writer.new ≡ W.failures writer.old)) }
    ensures fault { IfErr result (λ fault. IsFaultOf fault (R.reads reader.old) (R.reads reader.new)
        (R.failures reader.old) (R.failures reader.new) (W.failures writer.old) (W.failures writer.new)) }
{
    let mut task = Lacking::new(alloc);
    match run_task(alloc, &mut task, reader, writer) {
        Ok(()) => {}
        Err(fault) => return Err(fault),
    }
    Ok(task)
}
