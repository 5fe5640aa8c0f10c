//! The task that prints a line for each leaf of a list.
ghost use Rattle.std.specs.Prelude.{◌≡◌, ◌++◌, [], List, OnErr, OnOk, IfErr, IfOk, map, not, string_bytes, ℕ};
ghost use Rattle.script_engine.specs.Faults.{IsFaultOf};
ghost use Rattle.std.specs.Io.KnownBytes.{Appends};
ghost use Rattle.line_reader.specs.Tasks.{HasPrinted, HasPrintedPart};
ghost use Rattle.journal_lines.specs.Entries.{entry_view};
ghost use Rattle.journal_lines.specs.Lists.{texts_of};
ghost use Rattle.journal_tasks.specs.Arguments.{EndsFor, StepsFor};
ghost use Rattle.journal_tasks.specs.Lists.{is_wrong_entry, listed};
ghost use Rattle.journal_tasks.specs.Naming.{HasNamed, IsNaming, name_line, name_lines};

use crate::count::Count;
use journal_lines::{Entry, entry_of, push_json, push_rev};
use json::Scratch;
use line_reader::{LineTask, run_task};
use script_engine::{ScriptFault, ScriptRead, ScriptWrite};
use std::alloc::{AllocError, Global};

/// Prints a line for each leaf of a list, with a given word, the document id and the revision.
#[derive(Drop)]
pub struct Name {
    alloc: Global,
    scratch: Scratch,
    count: Count,
    word: String,
}

impl Name {
    /// Creates the task. Each line that the task prints begins with `word`.
    pub fn new(alloc: Global, word: String) -> Name
        ensures { IsNaming (string_bytes word) [] [] result }
    {
        Name {
            alloc,
            scratch: Scratch::new(alloc),
            count: Count::new(),
            word,
        }
    }

    /// Returns the number (from 1) of the first input line that is not a valid line of a list of leaves.
    pub fn wrong(&self) -> Option<u64>
        ensures { result ≡ self.now.count.wrong }
    {
        self.count.wrong
    }

    /// Appends the output line for a leaf.
    fn push(&self, text: &mut Vec<u8>, id: &str, rev: &str) -> Result<(), AllocError>
        ensures { OnOk result (text.new.items ≡ text.old.items ++ name_line (string_bytes self.now.word) (id.now, rev.now)) }
    {
        text.extend_from_slice(self.word.as_bytes())?;
        text.push(b' ')?;
        push_json(self.alloc, text, id)?;
        text.push(b' ')?;
        push_rev(self.alloc, text, rev)?;
        text.push(b'\n')?;
        Ok(())
    }

    /// Appends a line for each leaf of a document.
    fn push_all(&self, text: &mut Vec<u8>, id: &str, revs: &[String]) -> Result<(), AllocError>
        ensures { OnOk result (text.new.items ≡ text.old.items
            ++ name_lines (string_bytes self.now.word) (map (λ rev. (id.now, rev)) (texts_of revs.now))) }
    {
        for rev in revs {
            self.push(text, id, rev.as_str())?;
        }
        Ok(())
    }

    /// Appends a line for each leaf that an input line names. Returns whether the input line is a valid line of a list
    /// of leaves.
    fn push_entry(&self, text: &mut Vec<u8>, entry: &Entry) -> Result<bool, AllocError>
        ensures text { OnOk result (text.new.items ≡ text.old.items
            ++ name_lines (string_bytes self.now.word) (listed (entry_view entry.now))) }
        ensures right { IfOk result (λ right. right ≡ not (is_wrong_entry (entry_view entry.now))) }
    {
        match entry {
            Entry::State(leaves) | Entry::Lacks(leaves) => {
                self.push_all(text, leaves.id.as_str(), leaves.revs.as_slice())?;
                Ok(true)
            }
            Entry::Leaf(leaf) => {
                self.push(text, leaf.id.as_str(), leaf.rev.as_str())?;
                Ok(true)
            }
            Entry::Wrong => Ok(false),
        }
    }
}

impl LineTask for Name {
    ghost steps = { StepsFor IsNaming };

    ghost ends = { EndsFor IsNaming HasNamed };

    fn line(&mut self, line: &[u8], text: &mut Vec<u8>) -> Result<(), AllocError> {
        self.count.add()?;
        let entry = entry_of(self.alloc, &mut self.scratch, line)?;
        let right = self.push_entry(text, &entry)?;
        self.count.check(right);
        Ok(())
    }

    fn end(&mut self, rest: &[u8], _text: &mut Vec<u8>) -> Result<(), AllocError> {
        self.count.end(rest)?;
        Ok(())
    }
}

/// Reads a list of leaves from `reader`, and writes a line for each leaf of the list to `writer`. Each line begins with
/// `word`.
///
/// # Errors
///
/// Returns `Read` if the reader failed in this call, or after 4,294,967,295 reads of at most 65,536 bytes. Returns
/// `Write` if the writer failed in this call. Returns `Memory` if an allocation failed, or if a count is at its
/// maximum.
pub fn name_leaves<R: ScriptRead, W: ScriptWrite>(
    alloc: Global,
    word: String,
    reader: &mut R,
    writer: &mut W,
) -> Result<Name, ScriptFault>
    ensures took { IfOk result (λ task. (input text : List ℕ) × Appends (R.taken reader.old) (R.taken reader.new) input
        × Appends (W.held writer.old) (W.held writer.new) text
        × HasPrinted (HasNamed (string_bytes word)) input text task) }
    ensures stopped { OnErr result ((input text : List ℕ) × Appends (R.taken reader.old) (R.taken reader.new) input
        × Appends (W.held writer.old) (W.held writer.new) text
        × HasPrintedPart (IsNaming (string_bytes word)) (HasNamed (string_bytes word)) (R.ended reader.new) input text) }
    ensures ended { OnOk result (R.ended reader.new) }
    ensures counted { OnOk result ((R.failures reader.new ≡ R.failures reader.old)
        × (W.failures writer.new ≡ W.failures writer.old)) }
    ensures fault { IfErr result (λ fault. IsFaultOf fault (R.reads reader.old) (R.reads reader.new)
        (R.failures reader.old) (R.failures reader.new) (W.failures writer.old) (W.failures writer.new)) }
{
    let mut task = Name::new(alloc, word);
    match run_task(alloc, &mut task, reader, writer) {
        Ok(()) => {}
        Err(fault) => return Err(fault),
    }
    Ok(task)
}
