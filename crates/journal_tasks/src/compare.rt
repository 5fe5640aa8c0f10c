//! The task that compares two lists of leaves.
ghost use Rattle.std.specs.Prelude.{◌≡◌, ◌++◌, ◌||◌, ◌∷◌, [], if◌then◌else◌, List, OnErr, OnOk, IfErr, IfOk, Some, bytes_eq, filter, flat_map, is_some, map, not, unwrap_or, false, true, ℕ};
ghost use Rattle.script_engine.specs.Faults.{IsFaultOf};
ghost use Rattle.std.specs.List.{list_any};
ghost use Rattle.std.specs.Io.KnownBytes.{Appends};
ghost use Rattle.line_reader.specs.Tasks.{HasPrinted, HasPrintedPart};
ghost use Rattle.journal_lines.specs.Docs.{docs_view};
ghost use Rattle.journal_lines.specs.Entries.{entry_view};
ghost use Rattle.journal_lines.specs.Lists.{texts_of};
ghost use Rattle.journal_tasks.specs.Arguments.{EndsFor, StepsFor};
ghost use Rattle.journal_tasks.specs.Comparing.{HasCompared, IsComparing, compared_by, ids_in, named_leaves};
ghost use Rattle.journal_tasks.specs.Documents.{has_leaf, has_rev, revs_at};
ghost use Rattle.journal_tasks.specs.Halves.{is_empty_line};
ghost use Rattle.journal_tasks.specs.Lists.{is_wrong_entry, listed};

use crate::count::Count;
use crate::diff::add_all;
use crate::stored::{has_doc, has_leaf};
use indexmap::{IndexMap, IndexSet};
use journal_lines::{Docs, Entry, add_pair, entry_of, push_leaves};
use json::Scratch;
use line_reader::{LineTask, run_task};
use script_engine::{ScriptFault, ScriptRead, ScriptWrite};
use std::alloc::{AllocError, Global};

/// The task's input is a first list of leaves, an empty line, and a second list of leaves. For each line of the second
/// list of leaves, the task prints the leaves that the first list of leaves does not have. With the option `documents`,
/// the task instead prints all leaves of each line whose document is not in the first list.
///
/// The task holds in memory the first of the two lists of leaves in its input.
#[derive(Drop)]
pub struct Compare {
    alloc: Global,
    scratch: Scratch,
    count: Count,
    documents: bool,
    docs: Docs,
    in_second: bool,
}

/// Adds a document without leaves to the first list of leaves in the task's input.
fn add_doc(alloc: Global, docs: &mut Docs, id: &str) -> Result<(), AllocError>
    ensures { OnOk result ((other : List ℕ) → revs_at (docs_view docs.new) other
        ≡ (if bytes_eq other id.now then Some (unwrap_or (revs_at (docs_view docs.old) other) []) else revs_at (docs_view docs.old) other)) }
{
    if has_doc(docs, id) {
        return Ok(());
    }
    let id = String::from_str(alloc, id)?;
    docs.insert(id, IndexSet::new(alloc))?;
    Ok(())
}

/// Adds a document with its leaves to the first list of leaves in the task's input.
fn add_named(alloc: Global, docs: &mut Docs, id: &str, revs: &[String]) -> Result<(), AllocError>
    ensures ids { OnOk result ((other : List ℕ) → is_some (revs_at (docs_view docs.new) other)
        ≡ (is_some (revs_at (docs_view docs.old) other) || list_any (bytes_eq other) (id.now ∷ []))) }
    ensures leaves { OnOk result ((other rev : List ℕ) → has_rev (docs_view docs.new) other rev
        ≡ (has_rev (docs_view docs.old) other rev || has_leaf (map (λ rev. (id.now, rev)) (texts_of revs.now)) other rev)) }
{
    add_all(alloc, docs, id, revs)?;
    add_doc(alloc, docs, id)
}

/// Adds the document and the leaves in a line of the first list of leaves. Returns whether the line is a valid line of
/// a list of leaves.
fn add_first(alloc: Global, docs: &mut Docs, entry: &Entry) -> Result<bool, AllocError>
    ensures right { IfOk result (λ right. right ≡ not (is_wrong_entry (entry_view entry.now))) }
    ensures ids { OnOk result ((id : List ℕ) → is_some (revs_at (docs_view docs.new) id)
        ≡ (is_some (revs_at (docs_view docs.old) id) || list_any (bytes_eq id) (ids_in (entry_view entry.now)))) }
    ensures leaves { OnOk result ((id rev : List ℕ) → has_rev (docs_view docs.new) id rev
        ≡ (has_rev (docs_view docs.old) id rev || has_leaf (listed (entry_view entry.now)) id rev)) }
{
    match entry {
        Entry::State(leaves) | Entry::Lacks(leaves) => {
            add_named(alloc, docs, leaves.id.as_str(), leaves.revs.as_slice())?;
            Ok(true)
        }
        Entry::Leaf(leaf) => {
            add_pair(alloc, docs, leaf.id.as_str(), leaf.rev.as_str())?;
            Ok(true)
        }
        Entry::Wrong => Ok(false),
    }
}

/// Returns copies of those leaves in `revs` that `docs` does not have for the document `id`.
fn unlisted(
    alloc: Global,
    docs: &Docs,
    id: &str,
    revs: &[String],
) -> Result<Vec<String>, AllocError>
    ensures { IfOk result (λ found. texts_of found.items
        ≡ filter (λ rev. not (has_rev (docs_view docs.now) id.now rev)) (texts_of revs.now)) }
{
    let mut found = Vec::new(alloc);
    for rev in revs {
        if !has_leaf(docs, id, rev.as_str()) {
            found.push(String::from_str(alloc, rev.as_str())?)?;
        }
    }
    Ok(found)
}

impl Compare {
    /// Creates the task.
    pub fn new(alloc: Global, documents: bool) -> Compare
        ensures { IsComparing documents [] [] result }
    {
        Compare {
            alloc,
            scratch: Scratch::new(alloc),
            count: Count::new(),
            documents,
            docs: IndexMap::new(alloc),
            in_second: false,
        }
    }

    /// Returns the number (from 1) of the first input line that is not a valid line of a list of leaves.
    pub fn wrong(&self) -> Option<u64>
        ensures { result ≡ self.now.count.wrong }
    {
        self.count.wrong
    }

    /// Appends the output for the leaves `revs` of a document in the second list of leaves. The output may be empty.
    fn push(
        &self,
        text: &mut Vec<u8>,
        seq: &str,
        id: &str,
        revs: &[String],
    ) -> Result<(), AllocError>
        ensures { OnOk result (text.new.items ≡ text.old.items ++ compared_by self.now.documents
            (λ id. is_some (revs_at (docs_view self.now.docs) id)) (has_rev (docs_view self.now.docs)) (seq.now, id.now, texts_of revs.now)) }
    {
        if self.documents {
            if has_doc(&self.docs, id) {
                return Ok(());
            }
            return push_leaves(self.alloc, text, "state", seq, id, revs);
        }
        let found = unlisted(self.alloc, &self.docs, id, revs)?;
        if found.is_empty() {
            return Ok(());
        }
        push_leaves(self.alloc, text, "state", seq, id, found.as_slice())
    }

    /// Appends the output for one line of the second list of leaves. The output may be empty. Returns whether the line
    /// is a valid line of a list of leaves.
    fn push_entry(&self, text: &mut Vec<u8>, entry: &Entry) -> Result<bool, AllocError>
        ensures right { IfOk result (λ right. right ≡ not (is_wrong_entry (entry_view entry.now))) }
        ensures text { OnOk result (text.new.items ≡ text.old.items ++ flat_map (compared_by self.now.documents
            (λ id. is_some (revs_at (docs_view self.now.docs) id)) (has_rev (docs_view self.now.docs))) (named_leaves (entry_view entry.now))) }
    {
        match entry {
            Entry::State(leaves) | Entry::Lacks(leaves) => {
                let revs = leaves.revs.as_slice();
                self.push(text, leaves.seq.as_str(), leaves.id.as_str(), revs)?;
                Ok(true)
            }
            Entry::Leaf(leaf) => {
                let mut revs = Vec::new(self.alloc);
                revs.push(String::from_str(self.alloc, leaf.rev.as_str())?)?;
                self.push(text, "-", leaf.id.as_str(), revs.as_slice())?;
                Ok(true)
            }
            Entry::Wrong => Ok(false),
        }
    }

    /// Reads a line of the first list of leaves in the task's input.
    fn first_line(&mut self, line: &[u8]) -> Result<(), AllocError>
        requires part { self.old.in_second ≡ false }
        requires line { is_empty_line line.now ≡ false }
        ensures { OnOk result (StepsFor IsComparing self.old line.now [] self.new) }
    {
        self.count.add()?;
        let entry = entry_of(self.alloc, &mut self.scratch, line)?;
        let right = add_first(self.alloc, &mut self.docs, &entry)?;
        self.count.check(right);
        Ok(())
    }

    /// Reads the empty line between the two lists of leaves in the task's input.
    fn separator(&mut self, line: &[u8]) -> Result<(), AllocError>
        requires part { self.old.in_second ≡ false }
        requires line { is_empty_line line.now ≡ true }
        ensures { OnOk result (StepsFor IsComparing self.old line.now [] self.new) }
    {
        self.count.add()?;
        self.in_second = true;
        Ok(())
    }

    /// Reads a line of the second list of leaves in the task's input.
    fn second_line(&mut self, line: &[u8], text: &mut Vec<u8>) -> Result<(), AllocError>
        requires part { self.old.in_second ≡ true }
        requires empty { text.old.items ≡ [] }
        ensures { OnOk result (StepsFor IsComparing self.old line.now text.new.items self.new) }
    {
        self.count.add()?;
        let entry = entry_of(self.alloc, &mut self.scratch, line)?;
        let right = self.push_entry(text, &entry)?;
        self.count.check(right);
        Ok(())
    }
}

impl LineTask for Compare {
    ghost steps = { StepsFor IsComparing };

    ghost ends = { EndsFor IsComparing HasCompared };

    fn line(&mut self, line: &[u8], text: &mut Vec<u8>) -> Result<(), AllocError> {
        if self.in_second {
            return self.second_line(line, text);
        }
        if line.is_empty() {
            return self.separator(line);
        }
        self.first_line(line)
    }

    fn end(&mut self, rest: &[u8], _text: &mut Vec<u8>) -> Result<(), AllocError> {
        if self.in_second {
            return self.count.end(rest);
        }
        self.count.end_early(rest)
    }
}

/// Reads a first list of leaves, an empty line and a second list of leaves. For each line of the second list, writes
/// the leaves that the first list does not have. If `documents` is true, the call instead writes all leaves of each
/// line whose document is not in the first list.
///
/// # Errors
///
/// Returns `Read` if the reader failed in this call, or after 4,294,967,295 reads of at most 65,536 bytes. Returns
/// `Write` if the writer failed in this call. Returns `Memory` if an allocation failed, or if a count is at its
/// maximum.
pub fn compare_lists<R: ScriptRead, W: ScriptWrite>(
    alloc: Global,
    documents: bool,
    reader: &mut R,
    writer: &mut W,
) -> Result<Compare, ScriptFault>
    ensures took { IfOk result (λ task. (input text : List ℕ) × Appends (R.taken reader.old) (R.taken reader.new) input
        × Appends (W.held writer.old) (W.held writer.new) text × HasPrinted (HasCompared documents) input text task) }
    ensures stopped { OnErr result ((input text : List ℕ) × Appends (R.taken reader.old) (R.taken reader.new) input
        × Appends (W.held writer.old) (W.held writer.new) text
        × HasPrintedPart (IsComparing documents) (HasCompared documents) (R.ended reader.new) input text) }
    ensures ended { OnOk result (R.ended reader.new) }
    ensures counted { OnOk result ((R.failures reader.new ≡ R.failures reader.old)
        × (W.failures writer.new ≡ W.failures writer.old)) }
    ensures fault { IfErr result (λ fault. IsFaultOf fault (R.reads reader.old) (R.reads reader.new)
        (R.failures reader.old) (R.failures reader.new) (W.failures writer.old) (W.failures writer.new)) }
{
    let mut task = Compare::new(alloc, documents);
    match run_task(alloc, &mut task, reader, writer) {
        Ok(()) => {}
        Err(fault) => return Err(fault),
    }
    Ok(task)
}
