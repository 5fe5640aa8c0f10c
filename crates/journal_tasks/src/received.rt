//! The task that says which leaves of a request were received.
ghost use Rattle.std.specs.Prelude.{◌≡◌, ◌++◌, ◌&&◌, ℕ, List, OnErr, OnOk, IfErr, IfOk, Some, bytes_eq, codes, false, flat_map, if◌then◌else◌, is_some, map, not, option_map, string_bytes, true, []};
ghost use Rattle.script_engine.specs.Faults.{IsFaultOf};
ghost use Rattle.std.specs.List.{list_any};
ghost use Rattle.std.specs.Io.KnownBytes.{Appends};
ghost use Rattle.line_reader.specs.Tasks.{HasPrinted, HasPrintedPart};
ghost use Rattle.journal_lines.specs.Entries.{entry_view};
ghost use Rattle.journal_lines.specs.Leafs.{head_view, leaf_view};
ghost use Rattle.journal_lines.specs.Lists.{leaves_view, texts_of};
ghost use Rattle.journal_tasks.specs.Arguments.{EndsFor, StepsFor};
ghost use Rattle.journal_tasks.specs.Halves.{is_empty_line};
ghost use Rattle.journal_tasks.specs.Receiving.{HasReceived, IsReceiving, answered_by, doc_at, doc_or_new, doc_view, is_marked, is_stored, is_unnamed, lacks_by, leaf_at, named, received_by, requested_by, told_by, told_of, unmarked, wanted_at, wanted_view, with_leaf, with_wanted};

use crate::count::Count;
use indexmap::{IndexMap, IndexSet};
use journal_lines::{Entry, Leaf, Leaves, entry_of, push_leaves};
use json::Scratch;
use line_reader::{LineTask, run_task};
use script_engine::{ScriptFault, ScriptRead, ScriptWrite};
use std::alloc::{AllocError, Global};

/// A requested revision, with a Boolean that says whether it was received.
#[derive(Drop)]
struct Wanted {
    rev: String,
    received: bool,
}

/// The requested revisions and the received leaves of a requested document.
#[derive(Drop)]
struct Doc {
    /// The revisions that were requested of the document.
    wanted: Vec<Wanted>,
    /// The leaf revisions of the document that were received, in order.
    leaves: IndexSet<String>,
}

/// The requested documents by their ids.
type Docs = IndexMap<String, Doc>;

/// The input of the task `received` is the requested leaves, an empty line, and the received documents. The task prints
/// the requested documents. For each line of the request, the task prints a `state` line with the received leaves. If a
/// leaf in the request's line was not received, the task also prints a `lacks` line with all leaves of the request's
/// line. With `only_lacks`, the task prints only `state` lines, which list the leaves that were not received. The task
/// holds the request in memory.
#[derive(Drop)]
pub struct Received {
    alloc: Global,
    scratch: Scratch,
    count: Count,
    only_lacks: bool,
    lines: Vec<Leaves>,
    docs: Docs,
    in_response: bool,
    lacks: bool,
}

/// Returns a document without revisions.
fn new_doc(alloc: Global) -> Doc
    ensures { doc_view result ≡ ([], []) }
{
    Doc {
        wanted: Vec::new(alloc),
        leaves: IndexSet::new(alloc),
    }
}

/// Returns the given document or, if the argument is `None`, a document without revisions.
fn or_new(alloc: Global, doc: Option<Doc>) -> Doc
    ensures { doc_view result ≡ doc_or_new (option_map doc_view doc) }
{
    match doc {
        Some(doc) => doc,
        None => new_doc(alloc),
    }
}

/// Replaces the stored document with the given id by a document without revisions. Returns the document that was stored
/// before, or a document without revisions if the id is new.
fn take_out(alloc: Global, docs: &mut Docs, id: &str) -> Result<Doc, AllocError>
    ensures taken { IfOk result (λ doc. doc_view doc ≡ doc_or_new (doc_at docs.old id.now)) }
    ensures others { OnOk result ((other : List ℕ) → bytes_eq id.now other ≡ false
        → doc_at docs.new other ≡ doc_at docs.old other) }
{
    let key = String::from_str(alloc, id)?;
    let old = docs.insert(key, new_doc(alloc))?;
    Ok(or_new(alloc, old))
}

/// Stores a document.
fn put(alloc: Global, docs: &mut Docs, id: &str, doc: Doc) -> Result<(), AllocError>
    ensures { OnOk result ((other : List ℕ) → doc_at docs.new other
        ≡ (if bytes_eq id.now other then Some (doc_view doc) else doc_at docs.old other)) }
{
    let key = String::from_str(alloc, id)?;
    docs.insert(key, doc)?;
    Ok(())
}

/// Returns copies of the received revisions of a document.
fn copied(alloc: Global, revs: &IndexSet<String>) -> Result<Vec<String>, AllocError>
    ensures { IfOk result (λ copies. texts_of copies.items ≡ texts_of revs.now.keys) }
{
    let mut copies = Vec::new(alloc);
    let keys = revs.as_slice();
    for rev in keys {
        copies.push(String::from_str(alloc, rev.as_str())?)?;
    }
    Ok(copies)
}

/// Whether a revision was requested and received.
fn is_marked(wanted: &[Wanted], rev: &str) -> bool
    ensures { result ≡ is_marked (map wanted_view wanted.now) rev.now }
{
    for item in wanted {
        if item.received && item.rev.as_str() == rev {
            return true;
        }
    }
    false
}

/// Returns copies of those revisions of a list that were not received.
fn unmarked(alloc: Global, wanted: &[Wanted], revs: &[String]) -> Result<Vec<String>, AllocError>
    ensures { IfOk result (λ missing. texts_of missing.items ≡ unmarked (map wanted_view wanted.now) (texts_of revs.now)) }
{
    let mut missing = Vec::new(alloc);
    for rev in revs {
        if !is_marked(wanted, rev.as_str()) {
            missing.push(String::from_str(alloc, rev.as_str())?)?;
        }
    }
    Ok(missing)
}

/// Returns the requested revisions after a leaf was received, with the leaf and its ancestors marked as received.
fn received_after(alloc: Global, wanted: &[Wanted], leaf: &Leaf) -> Result<Vec<Wanted>, AllocError>
    ensures { IfOk result (λ after. map wanted_view after.items ≡ map (received_by (leaf_view leaf.now)) (map wanted_view wanted.now)) }
{
    let mut after = Vec::new(alloc);
    for item in wanted {
        let known = leaf.knows(alloc, item.rev.as_str())?;
        let rev = String::from_str(alloc, item.rev.as_str())?;
        let received = item.received || known;
        after.push(Wanted { rev, received })?;
    }
    Ok(after)
}

/// Adds requested revisions to a document.
fn with_wanted(alloc: Global, doc: Doc, revs: &[String]) -> Result<Doc, AllocError>
    ensures { IfOk result (λ after. doc_view after ≡ with_wanted (texts_of revs.now) (doc_view doc)) }
{
    let mut wanted = doc.wanted;
    for rev in revs {
        let rev = String::from_str(alloc, rev.as_str())?;
        wanted.push(Wanted {
            rev,
            received: false,
        })?;
    }
    Ok(Doc {
        wanted,
        leaves: doc.leaves,
    })
}

/// Adds a received leaf to a document. Marks the requested revisions in the leaf's ancestry as received.
fn with_leaf(alloc: Global, doc: Doc, leaf: &Leaf) -> Result<Doc, AllocError>
    ensures { IfOk result (λ after. doc_view after ≡ with_leaf (leaf_view leaf.now) (doc_view doc)) }
{
    let wanted = received_after(alloc, doc.wanted.as_slice(), leaf)?;
    let mut leaves = doc.leaves;
    leaves.insert(String::from_str(alloc, leaf.rev.as_str())?)?;
    Ok(Doc { wanted, leaves })
}

/// Adds the leaves of a line of the request to the requested documents.
fn want(alloc: Global, docs: &mut Docs, leaves: &Leaves) -> Result<(), AllocError>
    ensures { OnOk result ((id : List ℕ) → doc_at docs.new id ≡ wanted_at (leaves_view leaves.now) (doc_at docs.old) id) }
{
    let doc = take_out(alloc, docs, leaves.id.as_str())?;
    let doc = with_wanted(alloc, doc, leaves.revs.as_slice())?;
    put(alloc, docs, leaves.id.as_str(), doc)
}

/// Reads a line of the request. Returns false if a line of the request is neither a `state` line nor a `lacks` line.
fn request(
    alloc: Global,
    docs: &mut Docs,
    lines: &mut Vec<Leaves>,
    entry: Entry,
) -> Result<bool, AllocError>
    ensures right { IfOk result (λ right. right ≡ not (is_unnamed (entry_view entry))) }
    ensures lines { OnOk result (map leaves_view lines.new.items
        ≡ map leaves_view lines.old.items ++ named (entry_view entry)) }
    ensures docs { OnOk result ((id : List ℕ) → doc_at docs.new id
        ≡ requested_by (entry_view entry) (doc_at docs.old) id) }
{
    match entry {
        Entry::State(leaves) | Entry::Lacks(leaves) => {
            want(alloc, docs, &leaves)?;
            lines.push(leaves)?;
            Ok(true)
        }
        Entry::Leaf(_) | Entry::Wrong => Ok(false),
    }
}

/// Records that a leaf was received. Returns whether the leaf's document was requested.
fn receive_leaf(alloc: Global, docs: &mut Docs, leaf: &Leaf) -> Result<bool, AllocError>
    ensures known { IfOk result (λ known. known ≡ is_some (doc_at docs.old (string_bytes leaf.now.id))) }
    ensures docs { OnOk result ((id : List ℕ) → doc_at docs.new id ≡ leaf_at (head_view leaf.now) (doc_at docs.old) id) }
{
    if !docs.contains_key(leaf.id.as_str()) {
        return Ok(false);
    }
    let doc = take_out(alloc, docs, leaf.id.as_str())?;
    let doc = with_leaf(alloc, doc, leaf)?;
    put(alloc, docs, leaf.id.as_str(), doc)?;
    Ok(true)
}

/// Reads a line of the response. Returns whether the line has a document that was requested.
fn receive(alloc: Global, docs: &mut Docs, entry: &Entry) -> Result<bool, AllocError>
    ensures known { IfOk result (λ known. known ≡ is_stored (entry_view entry.now) (doc_at docs.old)) }
    ensures docs { OnOk result ((id : List ℕ) → doc_at docs.new id
        ≡ answered_by (entry_view entry.now) (doc_at docs.old) id) }
{
    match entry {
        Entry::Leaf(leaf) => receive_leaf(alloc, docs, leaf),
        Entry::State(_) | Entry::Lacks(_) | Entry::Wrong => Ok(false),
    }
}

/// Appends a line of the response, if the line's document was requested and `only_lacks` is false.
fn pass_on(text: &mut Vec<u8>, line: &[u8], known: bool, only_lacks: bool) -> Result<(), AllocError>
    ensures { OnOk result (text.new.items
        ≡ text.old.items ++ (if known && not only_lacks then line.now ++ codes "\n" else [])) }
{
    if known && !only_lacks {
        text.extend_from_slice(line)?;
        text.push(b'\n')?;
    }
    Ok(())
}

/// Appends the output lines for a line of the request. The argument `received` has the received leaves, and `missing`
/// has the requested revisions that were not received.
fn push_told(
    alloc: Global,
    text: &mut Vec<u8>,
    only_lacks: bool,
    received: &[String],
    missing: &[String],
    line: &Leaves,
) -> Result<(), AllocError>
    ensures { OnOk result (text.new.items ≡ text.old.items
        ++ told_of only_lacks (texts_of received.now) (texts_of missing.now) (leaves_view line.now)) }
{
    let seq = line.seq.as_str();
    let id = line.id.as_str();
    if only_lacks {
        if missing.is_empty() {
            return Ok(());
        }
        return push_leaves(alloc, text, "state", seq, id, missing);
    }
    push_leaves(alloc, text, "state", seq, id, received)?;
    if missing.is_empty() {
        return Ok(());
    }
    push_leaves(alloc, text, "lacks", seq, id, line.revs.as_slice())
}

/// Appends the output lines for a line of the request. Returns true if the line requests a revision that was not
/// received.
fn push_line(
    alloc: Global,
    text: &mut Vec<u8>,
    only_lacks: bool,
    docs: &Docs,
    line: &Leaves,
) -> Result<bool, AllocError>
    ensures text { OnOk result (text.new.items ≡ text.old.items
        ++ told_by only_lacks (doc_at docs.now (string_bytes line.now.id)) (leaves_view line.now)) }
    ensures lacks { IfOk result (λ lacks. lacks ≡ lacks_by (doc_at docs.now (string_bytes line.now.id)) (leaves_view line.now)) }
{
    let Some(doc) = docs.get(line.id.as_str()) else {
        return Ok(false);
    };
    let missing = unmarked(alloc, doc.wanted.as_slice(), line.revs.as_slice())?;
    let received = copied(alloc, &doc.leaves)?;
    push_told(
        alloc,
        text,
        only_lacks,
        received.as_slice(),
        missing.as_slice(),
        line,
    )?;
    Ok(!missing.is_empty())
}

impl Received {
    /// Creates the task.
    pub fn new(alloc: Global, only_lacks: bool) -> Received
        ensures { IsReceiving only_lacks [] [] result }
    {
        Received {
            alloc,
            scratch: Scratch::new(alloc),
            count: Count::new(),
            only_lacks,
            lines: Vec::new(alloc),
            docs: IndexMap::new(alloc),
            in_response: false,
            lacks: false,
        }
    }

    /// Returns the number (from 1) of the first wrong input line. A line is wrong if it has a wrong form, or has a
    /// document that was not requested.
    pub fn wrong(&self) -> Option<u64>
        ensures { result ≡ self.now.count.wrong }
    {
        self.count.wrong
    }

    /// Whether a requested leaf was not received.
    pub fn lacks(&self) -> bool
        ensures { result ≡ self.now.lacks }
    {
        self.lacks
    }

    /// Reads a line of the request.
    fn request_line(&mut self, line: &[u8]) -> Result<(), AllocError>
        requires part { self.old.in_response ≡ false }
        requires line { is_empty_line line.now ≡ false }
        ensures { OnOk result (StepsFor IsReceiving self.old line.now [] self.new) }
    {
        self.count.add()?;
        let entry = entry_of(self.alloc, &mut self.scratch, line)?;
        let right = request(self.alloc, &mut self.docs, &mut self.lines, entry)?;
        self.count.check(right);
        Ok(())
    }

    /// Reads the empty line between the request and the response.
    fn separator(&mut self, line: &[u8]) -> Result<(), AllocError>
        requires part { self.old.in_response ≡ false }
        requires line { is_empty_line line.now ≡ true }
        ensures { OnOk result (StepsFor IsReceiving self.old line.now [] self.new) }
    {
        self.count.add()?;
        self.in_response = true;
        Ok(())
    }

    /// Reads the line of a received document, and appends the line to the output.
    fn response_line(&mut self, line: &[u8], text: &mut Vec<u8>) -> Result<(), AllocError>
        requires part { self.old.in_response ≡ true }
        requires empty { text.old.items ≡ [] }
        ensures { OnOk result (StepsFor IsReceiving self.old line.now text.new.items self.new) }
    {
        self.count.add()?;
        let entry = entry_of(self.alloc, &mut self.scratch, line)?;
        let known = receive(self.alloc, &mut self.docs, &entry)?;
        self.count.check(known);
        pass_on(text, line, known, self.only_lacks)?;
        Ok(())
    }

    /// Appends the `state` and `lacks` lines of the output for all lines of the request. Returns true if a requested
    /// revision was not received.
    fn push_all(&self, text: &mut Vec<u8>) -> Result<bool, AllocError>
        ensures text { OnOk result (text.new.items ≡ text.old.items
            ++ flat_map (λ leaves. told_by self.now.only_lacks (doc_at self.now.docs leaves.1) leaves) (map leaves_view self.now.lines.items)) }
        ensures lacks { IfOk result (λ lacks. lacks
            ≡ list_any (λ leaves. lacks_by (doc_at self.now.docs leaves.1) leaves) (map leaves_view self.now.lines.items)) }
    {
        let mut lacks = false;
        let lines = self.lines.as_slice();
        for line in lines {
            let more = push_line(self.alloc, text, self.only_lacks, &self.docs, line)?;
            lacks = lacks || more;
        }
        Ok(lacks)
    }
}

impl LineTask for Received {
    ghost steps = { StepsFor IsReceiving };

    ghost ends = { EndsFor IsReceiving HasReceived };

    fn line(&mut self, line: &[u8], text: &mut Vec<u8>) -> Result<(), AllocError> {
        if self.in_response {
            return self.response_line(line, text);
        }
        if line.is_empty() {
            return self.separator(line);
        }
        self.request_line(line)
    }

    fn end(&mut self, rest: &[u8], text: &mut Vec<u8>) -> Result<(), AllocError> {
        self.count.end(rest)?;
        if !self.count.is_right() {
            return Ok(());
        }
        self.lacks = self.push_all(text)?;
        Ok(())
    }
}

/// Reads the requested leaves, an empty line and the received documents. Writes the requested documents, and says for
/// each line of the request which leaves were received. If `only_lacks` is true, the call writes only the leaves that
/// were not received.
///
/// # Errors
///
/// Returns `Read` if the reader failed in this call, or after 4,294,967,295 reads of at most 65,536 bytes. Returns
/// `Write` if the writer failed in this call. Returns `Memory` if an allocation failed, or if a count is at its
/// maximum.
pub fn receive_leaves<R: ScriptRead, W: ScriptWrite>(
    alloc: Global,
    only_lacks: bool,
    reader: &mut R,
    writer: &mut W,
) -> Result<Received, ScriptFault>
    ensures took { IfOk result (λ task. (input text : List ℕ) × Appends (R.taken reader.old) (R.taken reader.new) input
        × Appends (W.held writer.old) (W.held writer.new) text × HasPrinted (HasReceived only_lacks) input text task) }
    ensures stopped { OnErr result ((input text : List ℕ) × Appends (R.taken reader.old) (R.taken reader.new) input
        × Appends (W.held writer.old) (W.held writer.new) text
        × HasPrintedPart (IsReceiving only_lacks) (HasReceived only_lacks) (R.ended reader.new) input text) }
    ensures ended { OnOk result (R.ended reader.new) }
    ensures counted { OnOk result ((R.failures reader.new ≡ R.failures reader.old)
        × (W.failures writer.new ≡ W.failures writer.old)) }
    ensures fault { IfErr result (λ fault. IsFaultOf fault (R.reads reader.old) (R.reads reader.new)
        (R.failures reader.old) (R.failures reader.new) (W.failures writer.old) (W.failures writer.new)) }
{
    let mut task = Received::new(alloc, only_lacks);
    match run_task(alloc, &mut task, reader, writer) {
        Ok(()) => {}
        Err(fault) => return Err(fault),
    }
    Ok(task)
}
