//! The task that writes a `_revs_diff` request. The request asks a server which leaves of a list are missing there.
ghost use Rattle.std.specs.Prelude.{◌≡◌, ◌++◌, [], ◌∷◌, List, OnErr, OnOk, IfErr, IfOk, codes, flat_map, map, not, ℕ};
ghost use Rattle.script_engine.specs.Faults.{IsFaultOf};
ghost use Rattle.std.specs.Io.KnownBytes.{Appends};
ghost use Rattle.json.specs.Token.{string};
ghost use Rattle.line_reader.specs.Tasks.{EndsBy, HasPrinted, HasPrintedPart, StepsBy};
ghost use Rattle.journal_lines.specs.Docs.{docs_view};
ghost use Rattle.journal_lines.specs.Entries.{entry_view};
ghost use Rattle.journal_lines.specs.Lists.{texts_of};
ghost use Rattle.journal_tasks.specs.Diffing.{HasDiffed, IsDiffing, diff_body, diff_member};
ghost use Rattle.journal_tasks.specs.Documents.{add_leaves};
ghost use Rattle.journal_tasks.specs.Lists.{is_wrong_entry, listed};

use crate::count::Count;
use indexmap::IndexMap;
use journal_lines::{Docs, Entry, add_pair, entry_of};
use json::{Scratch, Writer};
use line_reader::{LineTask, run_task};
use script_engine::{ScriptFault, ScriptRead, ScriptWrite};
use std::alloc::{AllocError, Global};

/// Prints the body of a `_revs_diff` request for the leaves of a list. The request names each document once, in the
/// order in which the documents first occur in the list.
///
/// The task holds the complete list of leaves in memory.
#[derive(Drop)]
pub struct Diff {
    alloc: Global,
    scratch: Scratch,
    count: Count,
    docs: Docs,
}

/// Adds the leaves in an input line to the list of leaves. Returns true if the input line lists leaves or has a
/// document.
pub(crate) fn add_entry(alloc: Global, docs: &mut Docs, entry: &Entry) -> Result<bool, AllocError>
    ensures right { IfOk result (λ right. right ≡ not (is_wrong_entry (entry_view entry.now))) }
    ensures docs { OnOk result (docs_view docs.new ≡ add_leaves (docs_view docs.old) (listed (entry_view entry.now))) }
{
    match entry {
        Entry::State(leaves) | Entry::Lacks(leaves) => {
            add_all(alloc, docs, leaves.id.as_str(), leaves.revs.as_slice())?;
            Ok(true)
        }
        Entry::Leaf(leaf) => {
            add_pair(alloc, docs, leaf.id.as_str(), leaf.rev.as_str())?;
            Ok(true)
        }
        Entry::Wrong => Ok(false),
    }
}

/// Adds the leaves of a document to the list of leaves.
pub(crate) fn add_all(
    alloc: Global,
    docs: &mut Docs,
    id: &str,
    revs: &[String],
) -> Result<(), AllocError>
    ensures { OnOk result (docs_view docs.new
        ≡ add_leaves (docs_view docs.old) (map (λ rev. (id.now, rev)) (texts_of revs.now))) }
{
    for rev in revs {
        add_pair(alloc, docs, id, rev.as_str())?;
    }
    Ok(())
}

/// Writes revisions as JSON strings.
fn put_revs(writer: &mut Writer, revs: &[String]) -> Result<(), AllocError>
    ensures before { OnOk result (writer.new.before ≡ writer.old.before) }
    ensures tokens { OnOk result (writer.new.tokens ≡ writer.old.tokens ++ map string (texts_of revs.now)) }
{
    for rev in revs {
        writer.string(rev.as_str())?;
    }
    Ok(())
}

/// Writes a document as a member of a request.
fn put_doc(writer: &mut Writer, id: &str, revs: &[String]) -> Result<(), AllocError>
    ensures before { OnOk result (writer.new.before ≡ writer.old.before) }
    ensures tokens { OnOk result (writer.new.tokens ≡ writer.old.tokens ++ diff_member (id.now, texts_of revs.now)) }
{
    writer.key(id)?;
    writer.begin_array()?;
    put_revs(writer, revs)?;
    writer.end_array()?;
    Ok(())
}

/// Writes documents as the members of a request.
fn put_docs(writer: &mut Writer, docs: &Docs) -> Result<(), AllocError>
    ensures before { OnOk result (writer.new.before ≡ writer.old.before) }
    ensures tokens { OnOk result (writer.new.tokens ≡ writer.old.tokens ++ flat_map diff_member (docs_view docs.now)) }
{
    for index in 0..docs.len() {
        let Some((id, revs)) = docs.get_index(index) else {
            return Ok(());
        };
        put_doc(writer, id.as_str(), revs.as_slice())?;
    }
    Ok(())
}

/// Returns the body of the request for documents.
fn diff_body(alloc: Global, docs: &Docs) -> Result<Vec<u8>, AllocError>
    ensures { IfOk result (λ body. body.items ≡ diff_body (docs_view docs.now)) }
{
    let mut writer = Writer::new(Vec::new(alloc));
    writer.begin_object()?;
    put_docs(&mut writer, docs)?;
    writer.end_object()?;
    let mut body = writer.into_inner();
    body.push(b'\n')?;
    Ok(body)
}

impl Diff {
    /// Creates the task.
    pub fn new(alloc: Global) -> Diff
        ensures { IsDiffing [] [] result }
    {
        Diff {
            alloc,
            scratch: Scratch::new(alloc),
            count: Count::new(),
            docs: IndexMap::new(alloc),
        }
    }

    /// Returns the number (from 1) of the first input line that is not a valid line of a list of leaves.
    pub fn wrong(&self) -> Option<u64>
        ensures { result ≡ self.now.count.wrong }
    {
        self.count.wrong
    }
}

impl LineTask for Diff {
    ghost steps = { StepsBy IsDiffing };

    ghost ends = { EndsBy IsDiffing HasDiffed };

    fn line(&mut self, line: &[u8], _text: &mut Vec<u8>) -> Result<(), AllocError> {
        self.count.add()?;
        let entry = entry_of(self.alloc, &mut self.scratch, line)?;
        let right = add_entry(self.alloc, &mut self.docs, &entry)?;
        self.count.check(right);
        Ok(())
    }

    fn end(&mut self, rest: &[u8], text: &mut Vec<u8>) -> Result<(), AllocError> {
        self.count.end(rest)?;
        if !self.count.is_right() {
            return Ok(());
        }
        *text = diff_body(self.alloc, &self.docs)?;
        Ok(())
    }
}

/// Reads a list of leaves from `reader`, and writes the body of a `_revs_diff` request for the documents of the list to
/// `writer`. If a line of the list is wrong, the call writes nothing.
///
/// # Errors
///
/// Returns `Read` if the reader failed in this call, or after 4,294,967,295 reads of at most 65,536 bytes. Returns
/// `Write` if the writer failed in this call. Returns `Memory` if an allocation failed, or if a count is at its
/// maximum.
pub fn diff_leaves<R: ScriptRead, W: ScriptWrite>(
    alloc: Global,
    reader: &mut R,
    writer: &mut W,
) -> Result<Diff, ScriptFault>
    ensures took { IfOk result (λ task. (input text : List ℕ) × Appends (R.taken reader.old) (R.taken reader.new) input
        × Appends (W.held writer.old) (W.held writer.new) text × HasPrinted HasDiffed input text task) }
    ensures stopped { OnErr result ((input text : List ℕ) × Appends (R.taken reader.old) (R.taken reader.new) input
        × Appends (W.held writer.old) (W.held writer.new) text
        × HasPrintedPart IsDiffing HasDiffed (R.ended reader.new) input text) }
    ensures ended { OnOk result (R.ended reader.new) }
    ensures counted { OnOk result ((R.failures reader.new ≡ R.failures reader.old)
        × (W.failures writer.new ≡ W.failures writer.old)) }
    ensures fault { IfErr result (λ fault. IsFaultOf fault (R.reads reader.old) (R.reads reader.new)
        (R.failures reader.old) (R.failures reader.new) (W.failures writer.old) (W.failures writer.new)) }
{
    let mut task = Diff::new(alloc);
    match run_task(alloc, &mut task, reader, writer) {
        Ok(()) => {}
        Err(fault) => return Err(fault),
    }
    Ok(task)
}
