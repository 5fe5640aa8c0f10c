//! The task that prints the documents with several live leaves.
ghost use Rattle.std.specs.Prelude.{◌≡◌, ◌+◌, ◌++◌, [], ℕ, List, IfErr, IfOk, OnErr, OnOk, bytes_eq, codes, decimal, filter, flat_map, fold, if◌then◌else◌, length, map, nat_eq, not, string_bytes};
ghost use Rattle.script_engine.specs.Faults.{IsFaultOf};
ghost use Rattle.std.specs.List.{list_any};
ghost use Rattle.std.specs.Io.KnownBytes.{Appends};
ghost use Rattle.line_reader.specs.Tasks.{EndsBy, HasPrinted, HasPrintedPart, StepsBy};
ghost use Rattle.journal_lines.specs.Docs.{add_rev};
ghost use Rattle.journal_lines.specs.Entries.{entry_view};
ghost use Rattle.journal_lines.specs.Leafs.{head_view, leaf_view};
ghost use Rattle.journal_lines.specs.Lists.{texts_of};
ghost use Rattle.journal_tasks.specs.Conflicting.{HasConflicts, IsConflicting, add_entry_head, add_head, add_history, ancestry_text, conflict_text, conflicts_report, doc_line, flag_text, has_two_live, heads_view, histories_view, is_in_conflict, known_count, leaf_line, leaves_or_none, revs_known, winner_text};
ghost use Rattle.journal_tasks.specs.Lists.{is_wrong_entry};

use crate::count::Count;
use crate::ranks::rank_leaves;
use indexmap::{IndexMap, IndexSet};
use itoa::Buffer;
use journal_core::added;
use journal_lines::{Entry, Leaf, entry_of, push_json, push_rev, rev_of};
use json::Scratch;
use line_reader::{LineTask, run_task};
use script_engine::{ScriptFault, ScriptRead, ScriptWrite};
use std::alloc::{AllocError, Global};

/// The revisions of documents, by document id.
type Histories = IndexMap<String, Vec<Leaf>>;

/// Prints the documents with two or more live leaves, and the leaves of each of these documents, the winner first.
///
/// The task holds the revisions of all documents in memory, but no bodies.
#[derive(Drop)]
pub struct Conflicts {
    alloc: Global,
    scratch: Scratch,
    count: Count,
    docs: Histories,
}

/// Adds a leaf's revision, and the revisions of the leaf's ancestry, to a set.
fn add_revs(alloc: Global, revs: &mut IndexSet<String>, leaf: &Leaf) -> Result<(), AllocError>
    ensures { OnOk result (texts_of revs.new.keys ≡ fold add_rev (texts_of revs.old.keys) (revs_known (head_view leaf.now))) }
{
    revs.insert(String::from_str(alloc, leaf.rev.as_str())?)?;
    for index in 0..leaf.names.len() {
        let name = leaf.names[index].as_str();
        revs.insert(rev_of(alloc, leaf.generation(index), name)?)?;
    }
    Ok(())
}

/// Returns the number of known revisions of a document.
fn count_revs(alloc: Global, leaves: &[Leaf]) -> Result<usize, AllocError>
    ensures { IfOk result (λ count. count ≡ known_count (heads_view leaves.now)) }
{
    let mut revs = IndexSet::new(alloc);
    for leaf in leaves {
        add_revs(alloc, &mut revs, leaf)?;
    }
    Ok(revs.len())
}

/// Appends a comma, unless the index is 0.
fn push_comma(text: &mut Vec<u8>, index: usize) -> Result<(), AllocError>
    ensures { OnOk result (text.new.items ≡ text.old.items ++ (if nat_eq index 0 then [] else codes ",")) }
{
    if index > 0 {
        text.push(b',')?;
    }
    Ok(())
}

/// Appends the revisions of a leaf's ancestry, separated by commas. If the leaf has no ancestry, appends the leaf's
/// revision.
fn push_ancestry(alloc: Global, text: &mut Vec<u8>, leaf: &Leaf) -> Result<(), AllocError>
    ensures { OnOk result (text.new.items ≡ text.old.items ++ ancestry_text (leaf_view leaf.now)) }
{
    if leaf.names.is_empty() {
        return push_rev(alloc, text, leaf.rev.as_str());
    }
    for index in 0..leaf.names.len() {
        push_comma(text, index)?;
        let rev = rev_of(alloc, leaf.generation(index), leaf.names[index].as_str())?;
        push_rev(alloc, text, rev.as_str())?;
    }
    Ok(())
}

/// Returns the part of a leaf's line that says whether the leaf is deleted.
fn flag_text(deleted: bool) -> &'static str
    ensures { result.now ≡ flag_text deleted }
{
    if deleted { " deleted " } else { " live " }
}

/// Appends a line with a leaf and the leaf's ancestry.
fn push_leaf(alloc: Global, text: &mut Vec<u8>, leaf: &Leaf) -> Result<(), AllocError>
    ensures { OnOk result (text.new.items ≡ text.old.items ++ leaf_line (head_view leaf.now)) }
{
    text.extend_from_slice(b"leaf ".as_slice())?;
    push_rev(alloc, text, leaf.rev.as_str())?;
    text.extend_from_slice(flag_text(leaf.deleted).as_bytes())?;
    push_ancestry(alloc, text, leaf)?;
    text.push(b'\n')?;
    Ok(())
}

/// Appends a line for each leaf.
fn push_leaves(alloc: Global, text: &mut Vec<u8>, leaves: &[&Leaf]) -> Result<(), AllocError>
    ensures { OnOk result (text.new.items
        ≡ text.old.items ++ flat_map leaf_line (map (λ leaf. head_view leaf.now) leaves.now)) }
{
    for leaf in leaves {
        push_leaf(alloc, text, *leaf)?;
    }
    Ok(())
}

/// Appends the text `word` and a number.
fn push_number(text: &mut Vec<u8>, word: &str, number: usize) -> Result<(), AllocError>
    ensures { OnOk result (text.new.items ≡ text.old.items ++ (word.now ++ decimal number)) }
{
    let mut digits = Buffer::new();
    text.extend_from_slice(word.as_bytes())?;
    text.extend_from_slice(digits.format(number).as_bytes())
}

/// Appends the revision of the first leaf.
fn push_winner(alloc: Global, text: &mut Vec<u8>, leaves: &[&Leaf]) -> Result<(), AllocError>
    ensures { OnOk result (text.new.items
        ≡ text.old.items ++ winner_text (map (λ leaf. head_view leaf.now) leaves.now)) }
{
    match leaves.first() {
        Some(winner) => push_rev(alloc, text, winner.rev.as_str()),
        None => Ok(()),
    }
}

/// Appends the line of a document in conflict. The document has the given leaves, the winner first, and `count` known
/// revisions.
fn push_head(
    alloc: Global,
    text: &mut Vec<u8>,
    id: &str,
    leaves: &[&Leaf],
    count: usize,
) -> Result<(), AllocError>
    ensures { OnOk result (text.new.items
        ≡ text.old.items ++ doc_line id.now (map (λ leaf. head_view leaf.now) leaves.now) count) }
{
    text.extend_from_slice(b"doc ".as_slice())?;
    push_json(alloc, text, id)?;
    text.extend_from_slice(b" winner ".as_slice())?;
    push_winner(alloc, text, leaves)?;
    push_number(text, " leaves ", leaves.len())?;
    push_number(text, " revs ", count)?;
    text.push(b'\n')?;
    Ok(())
}

/// Whether two or more leaves are live.
fn has_two_live(leaves: &[&Leaf]) -> bool
    ensures { result ≡ has_two_live (map (λ leaf. head_view leaf.now) leaves.now) }
{
    let mut live = 0;
    for leaf in leaves {
        live += !leaf.deleted as usize;
    }
    live >= 2
}

/// Appends the lines of a document, if the document is in conflict. Returns whether the document is in conflict.
fn push_doc(alloc: Global, text: &mut Vec<u8>, id: &str, revs: &[Leaf]) -> Result<bool, AllocError>
    ensures text { OnOk result (text.new.items ≡ text.old.items ++ conflict_text (id.now, heads_view revs.now)) }
    ensures found { IfOk result (λ found. found ≡ is_in_conflict (id.now, heads_view revs.now)) }
{
    let leaves = rank_leaves(alloc, revs)?;
    if !has_two_live(leaves.as_slice()) {
        return Ok(false);
    }
    let count = count_revs(alloc, revs)?;
    push_head(alloc, text, id, leaves.as_slice(), count)?;
    push_leaves(alloc, text, leaves.as_slice())?;
    Ok(true)
}

/// Returns the number of documents in conflict after one more document. If `is_found` is true, this document is in
/// conflict, and `found` documents before it are.
fn counted(found: u64, is_found: bool) -> Result<u64, AllocError>
    ensures { IfOk result (λ count. count ≡ found + (if is_found then 1 else 0)) }
{
    if is_found {
        return added(found, 1);
    }
    Ok(found)
}

/// Appends the lines of the documents in conflict. Returns the number of these documents.
fn push_docs(alloc: Global, text: &mut Vec<u8>, docs: &Histories) -> Result<u64, AllocError>
    ensures text { OnOk result (text.new.items ≡ text.old.items ++ flat_map conflict_text (histories_view docs.now)) }
    ensures count { IfOk result (λ count. count ≡ length (filter is_in_conflict (histories_view docs.now))) }
{
    let mut found = 0;
    for index in 0..docs.len() {
        let Some((id, revs)) = docs.get_index(index) else {
            return Ok(found);
        };
        let is_found = push_doc(alloc, text, id.as_str(), revs.as_slice())?;
        found = counted(found, is_found)?;
    }
    Ok(found)
}

/// Appends the output for a list of documents.
fn push_report(alloc: Global, text: &mut Vec<u8>, docs: &Histories) -> Result<(), AllocError>
    ensures { OnOk result (text.new.items ≡ text.old.items ++ conflicts_report (histories_view docs.now)) }
{
    let found = push_docs(alloc, text, docs)?;
    let mut digits = Buffer::new();
    text.extend_from_slice(b"conflicts ".as_slice())?;
    text.extend_from_slice(digits.format(found).as_bytes())?;
    text.push(b'\n')?;
    Ok(())
}

fn or_empty(alloc: Global, leaves: Option<Vec<Leaf>>) -> Vec<Leaf>
    ensures { result.items ≡ leaves_or_none leaves }
{
    match leaves {
        Some(leaves) => leaves,
        None => Vec::new(alloc),
    }
}

/// Whether a list of leaves has a revision.
fn has_rev(leaves: &[Leaf], rev: &str) -> bool
    ensures { result ≡ list_any (λ known. bytes_eq (string_bytes known.rev) rev.now) leaves.now }
{
    leaves.iter().any(|known| known.rev.as_str() == rev)
}

/// Adds a leaf to a list, unless the list already has the leaf's revision.
fn with_leaf(leaves: Vec<Leaf>, leaf: Leaf) -> Result<Vec<Leaf>, AllocError>
    ensures { IfOk result (λ new. heads_view new.items ≡ add_head (heads_view leaves.items) (head_view leaf)) }
{
    let mut leaves = leaves;
    if has_rev(leaves.as_slice(), leaf.rev.as_str()) {
        return Ok(leaves);
    }
    leaves.push(leaf)?;
    Ok(leaves)
}

/// Adds a leaf to the leaves of its document, unless the document already has the leaf's revision.
fn add_leaf(alloc: Global, docs: &mut Histories, leaf: Leaf) -> Result<(), AllocError>
    ensures { OnOk result (histories_view docs.new ≡ add_history (histories_view docs.old) (head_view leaf)) }
{
    let key = String::from_str(alloc, leaf.id.as_str())?;
    let again = String::from_str(alloc, leaf.id.as_str())?;
    let old = docs.insert(key, Vec::new(alloc))?;
    let leaves = with_leaf(or_empty(alloc, old), leaf)?;
    docs.insert(again, leaves)?;
    Ok(())
}

/// Adds the leaf of an input line to the leaves of its document, if the line has a document. Returns whether the line is
/// a valid line of a list of leaves.
fn add_entry(alloc: Global, docs: &mut Histories, entry: Entry) -> Result<bool, AllocError>
    ensures right { IfOk result (λ right. right ≡ not (is_wrong_entry (entry_view entry))) }
    ensures docs { OnOk result (histories_view docs.new ≡ add_entry_head (histories_view docs.old) (entry_view entry)) }
{
    match entry {
        Entry::Leaf(leaf) => {
            add_leaf(alloc, docs, leaf)?;
            Ok(true)
        }
        Entry::State(_) | Entry::Lacks(_) => Ok(true),
        Entry::Wrong => Ok(false),
    }
}

impl Conflicts {
    /// Creates the task.
    pub fn new(alloc: Global) -> Conflicts
        ensures { IsConflicting [] [] result }
    {
        Conflicts {
            alloc,
            scratch: Scratch::new(alloc),
            count: Count::new(),
            docs: IndexMap::new(alloc),
        }
    }

    /// Returns the number (from 1) of the first input line that is not a valid line of a list of leaves.
    pub fn wrong(&self) -> Option<u64>
        ensures { result ≡ self.now.count.wrong }
    {
        self.count.wrong
    }
}

impl LineTask for Conflicts {
    ghost steps = { StepsBy IsConflicting };

    ghost ends = { EndsBy IsConflicting HasConflicts };

    fn line(&mut self, line: &[u8], _text: &mut Vec<u8>) -> Result<(), AllocError> {
        self.count.add()?;
        let entry = entry_of(self.alloc, &mut self.scratch, line)?;
        let right = add_entry(self.alloc, &mut self.docs, entry)?;
        self.count.check(right);
        Ok(())
    }

    fn end(&mut self, rest: &[u8], text: &mut Vec<u8>) -> Result<(), AllocError> {
        self.count.end(rest)?;
        if !self.count.is_right() {
            return Ok(());
        }
        push_report(self.alloc, text, &self.docs)
    }
}

/// Reads a list of leaves from `reader`, and writes the documents in conflict, with the leaves of each of these
/// documents, to `writer`. If a line of the list is wrong, the output is empty.
///
/// # Errors
///
/// Returns `Read` if the reader failed in this call, or after 4,294,967,295 reads of at most 65,536 bytes. Returns
/// `Write` if the writer failed in this call. Returns `Memory` if an allocation failed, or if a count is at its
/// maximum.
pub fn list_conflicts<R: ScriptRead, W: ScriptWrite>(
    alloc: Global,
    reader: &mut R,
    writer: &mut W,
) -> Result<Conflicts, ScriptFault>
    ensures took { IfOk result (λ task. (input text : List ℕ) × Appends (R.taken reader.old) (R.taken reader.new) input
        × Appends (W.held writer.old) (W.held writer.new) text × HasPrinted HasConflicts input text task) }
    ensures stopped { OnErr result ((input text : List ℕ) × Appends (R.taken reader.old) (R.taken reader.new) input
        × Appends (W.held writer.old) (W.held writer.new) text
        × HasPrintedPart IsConflicting HasConflicts (R.ended reader.new) input text) }
    ensures ended { OnOk result (R.ended reader.new) }
    ensures counted { OnOk result ((R.failures reader.new ≡ R.failures reader.old)
        × (W.failures writer.new ≡ W.failures writer.old)) }
    ensures fault { IfErr result (λ fault. IsFaultOf fault (R.reads reader.old) (R.reads reader.new)
        (R.failures reader.old) (R.failures reader.new) (W.failures writer.old) (W.failures writer.new)) }
{
    let mut task = Conflicts::new(alloc);
    match run_task(alloc, &mut task, reader, writer) {
        Ok(()) => {}
        Err(fault) => return Err(fault),
    }
    Ok(task)
}
