//! The task that writes a request for the leaves of a list.
ghost use Rattle.std.specs.Prelude.{◌≡◌, ◌++◌, [], ◌∷◌, List, OnErr, OnOk, IfErr, IfOk, map, true, ℕ};
ghost use Rattle.script_engine.specs.Faults.{IsFaultOf};
ghost use Rattle.std.specs.Io.KnownBytes.{Appends};
ghost use Rattle.line_reader.specs.Tasks.{EndsBy, HasPrinted, HasPrintedPart, StepsBy};
ghost use Rattle.journal_lines.specs.Lists.{texts_of};
ghost use Rattle.journal_lines.specs.Entries.{entry_view};
ghost use Rattle.journal_tasks.specs.Counting.{counted_as};
ghost use Rattle.journal_tasks.specs.Lists.{is_wrong_entry, listed};
ghost use Rattle.journal_tasks.specs.Asking.{HasAsked, IsAsking, asked_items, has_begun};

use crate::count::Count;
use journal_lines::{Entry, entry_of, push_json};
use json::Scratch;
use line_reader::{LineTask, run_task};
use script_engine::{ScriptFault, ScriptRead, ScriptWrite};
use std::alloc::{AllocError, Global};

/// Prints the body of a `_bulk_get` request for each leaf of a list, in order.
#[derive(Drop)]
pub struct Ask {
    alloc: Global,
    scratch: Scratch,
    count: Count,
    begun: bool,
}

impl Ask {
    /// Creates the task.
    pub fn new(alloc: Global) -> Ask
        ensures { IsAsking [] [] result }
    {
        Ask {
            alloc,
            scratch: Scratch::new(alloc),
            count: Count::new(),
            begun: false,
        }
    }

    /// Returns the number (from 1) of the first input line that is not a valid line of a list of leaves.
    pub fn wrong(&self) -> Option<u64>
        ensures { result ≡ self.now.count.wrong }
    {
        self.count.wrong
    }

    /// Appends a leaf to the body of the request.
    fn push(&mut self, text: &mut Vec<u8>, id: &str, rev: &str) -> Result<(), AllocError>
        ensures text { OnOk result (text.new.items
            ≡ text.old.items ++ asked_items self.old.begun ((id.now, rev.now) ∷ [])) }
        ensures begun { OnOk result (self.new.begun ≡ true) }
        ensures count { OnOk result (self.new.count ≡ self.old.count) }
    {
        if self.begun {
            text.push(b',')?;
        } else {
            text.extend_from_slice(b"{\"docs\":[".as_slice())?;
            self.begun = true;
        }
        text.extend_from_slice(b"{\"id\":".as_slice())?;
        push_json(self.alloc, text, id)?;
        text.extend_from_slice(b",\"rev\":".as_slice())?;
        push_json(self.alloc, text, rev)?;
        text.push(b'}')?;
        Ok(())
    }

    /// Appends a document's leaves to the body of the request.
    fn push_all(&mut self, text: &mut Vec<u8>, id: &str, revs: &[String]) -> Result<(), AllocError>
        ensures text { OnOk result (text.new.items
            ≡ text.old.items ++ asked_items self.old.begun (map (λ rev. (id.now, rev)) (texts_of revs.now))) }
        ensures begun { OnOk result (self.new.begun
            ≡ has_begun self.old.begun (map (λ rev. (id.now, rev)) (texts_of revs.now))) }
        ensures count { OnOk result (self.new.count ≡ self.old.count) }
    {
        for rev in revs {
            self.push(text, id, rev.as_str())?;
        }
        Ok(())
    }

    /// Appends the leaves of a line to the body of the request.
    fn push_entry(&mut self, text: &mut Vec<u8>, entry: &Entry) -> Result<(), AllocError>
        ensures text { OnOk result (text.new.items
            ≡ text.old.items ++ asked_items self.old.begun (listed (entry_view entry.now))) }
        ensures begun { OnOk result (self.new.begun ≡ has_begun self.old.begun (listed (entry_view entry.now))) }
        ensures count { OnOk result (self.new.count
            ≡ counted_as (is_wrong_entry (entry_view entry.now)) self.old.count) }
    {
        match entry {
            Entry::State(leaves) | Entry::Lacks(leaves) => {
                self.push_all(text, leaves.id.as_str(), leaves.revs.as_slice())
            }
            Entry::Leaf(leaf) => self.push(text, leaf.id.as_str(), leaf.rev.as_str()),
            Entry::Wrong => {
                self.count.fail();
                Ok(())
            }
        }
    }
}

impl LineTask for Ask {
    ghost steps = { StepsBy IsAsking };

    ghost ends = { EndsBy IsAsking HasAsked };

    fn line(&mut self, line: &[u8], text: &mut Vec<u8>) -> Result<(), AllocError> {
        self.count.add()?;
        let entry = entry_of(self.alloc, &mut self.scratch, line)?;
        self.push_entry(text, &entry)?;
        Ok(())
    }

    fn end(&mut self, rest: &[u8], text: &mut Vec<u8>) -> Result<(), AllocError> {
        self.count.end(rest)?;
        if self.begun {
            text.extend_from_slice(b"]}\n".as_slice())?;
        }
        Ok(())
    }
}

/// Reads a list of leaves from `reader`, and writes the body of a `_bulk_get` request for all leaves of the list to
/// `writer`.
///
/// # Errors
///
/// Returns `Read` if the reader failed in this call, or after 4,294,967,295 reads of at most 65,536 bytes. Returns
/// `Write` if the writer failed in this call. Returns `Memory` if an allocation failed, or if a count is at its
/// maximum.
pub fn ask_leaves<R: ScriptRead, W: ScriptWrite>(
    alloc: Global,
    reader: &mut R,
    writer: &mut W,
) -> Result<Ask, ScriptFault>
    ensures took { IfOk result (λ task. (input text : List ℕ) × Appends (R.taken reader.old) (R.taken reader.new) input
        × Appends (W.held writer.old) (W.held writer.new) text × HasPrinted HasAsked input text task) }
    ensures stopped { OnErr result ((input text : List ℕ) × Appends (R.taken reader.old) (R.taken reader.new) input
        × Appends (W.held writer.old) (W.held writer.new) text
        × HasPrintedPart IsAsking HasAsked (R.ended reader.new) input text) }
    ensures ended { OnOk result (R.ended reader.new) }
    ensures counted { OnOk result ((R.failures reader.new ≡ R.failures reader.old)
        × (W.failures writer.new ≡ W.failures writer.old)) }
    ensures fault { IfErr result (λ fault. IsFaultOf fault (R.reads reader.old) (R.reads reader.new)
        (R.failures reader.old) (R.failures reader.new) (W.failures writer.old) (W.failures writer.new)) }
{
    let mut task = Ask::new(alloc);
    match run_task(alloc, &mut task, reader, writer) {
        Ok(()) => {}
        Err(fault) => return Err(fault),
    }
    Ok(task)
}
