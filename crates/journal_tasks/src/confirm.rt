//! The task that finds out which part of a journal the journal's checksums confirm.
ghost use Rattle.std.specs.Prelude.{◌≡◌, ◌⊎◌, ◌++◌, ◌∷◌, ◌&&◌, [], ℕ, List, IfErr, IfOk, OnErr, OnOk, Some, codes, decimal, is_none, is_some, length, not, option_map};
ghost use Rattle.script_engine.specs.Faults.{IsFaultOf};
ghost use Rattle.std.specs.Io.KnownBytes.{Appends};
ghost use Rattle.line_reader.specs.Tasks.{HasPrinted, HasPrintedPart};
ghost use Rattle.journal_core.specs.Places.{IsAt, Place, is_confirmed};
ghost use Rattle.journal_tasks.specs.Arguments.{EndsFor, StepsFor};
ghost use Rattle.journal_tasks.specs.Confirming.{ClosesBlock, EndsLine, HasConfirmed, IsConfirming, KeepsLine, docs_in, is_at, is_at_given, is_doc_line, is_rest, looked, stored_report, with_found};

use crate::journal::is_sum;
use crate::lacks::{Lacks, is_told};
use itoa::Buffer;
use journal_core::{Blocks, Took, added};
use line_reader::{LineTask, run_task};
use script_engine::{ScriptFault, ScriptRead, ScriptWrite};
use std::alloc::{AllocError, Global};

/// Prints the size and the last block of the longest prefix of a journal that the journal's checksums confirm. If the
/// confirmed prefix lacks requested leaves of a document, the task prints the document's last `lacks` line. If the
/// caller gives a sequence, the report ends at the last confirmed block that has this sequence.
///
/// The task holds in memory one block, copies of the block's `state` lines and `lacks` lines, and the lines that the task
/// prints.
#[derive(Drop)]
pub struct Confirm {
    alloc: Global,
    blocks: Blocks,
    /// The number of documents in the confirmed blocks.
    leaves: u64,
    /// The number of documents in the block that the task is reading.
    held: u64,
    /// The `state` lines and the `lacks` lines of the block that the task is reading.
    pending: Vec<Vec<u8>>,
    lacks: Lacks,
    at: Option<Vec<u8>>,
    found: Option<Vec<u8>>,
    /// Whether the last line of the input has no line end.
    cut: bool,
    begun: bool,
    sums: bool,
    first_leaf: bool,
}

/// Whether the bytes `rest` are empty or begin with `-`.
fn is_rest(rest: Option<&[u8]>) -> bool
    ensures { result ≡ is_rest (option_map (λ rest. rest.now) rest.entry) }
{
    match rest {
        Some(rest) => rest.is_empty() || rest.starts_with(b"-".as_slice()),
        None => false,
    }
}

/// Whether the sequence `seq` equals `at`, or begins with `at` followed by `-`.
fn is_at(seq: &[u8], at: &[u8]) -> bool
    ensures { result ≡ is_at seq.now at.now }
{
    is_rest(seq.strip_prefix(at))
}

/// Whether a line has a document.
fn is_doc(line: &[u8]) -> bool
    ensures { result ≡ is_doc_line line.now }
{
    line.starts_with(b"{".as_slice())
}

/// Returns 1 if a line has a document, otherwise 0.
fn leaf_of(line: &[u8]) -> u64
    ensures { result ≡ docs_in (line.now ∷ []) }
{
    if is_doc(line) { 1 } else { 0 }
}

/// Appends a number and a blank.
fn push_number(text: &mut Vec<u8>, number: u64) -> Result<(), AllocError>
    ensures { OnOk result (text.new.items ≡ text.old.items ++ (decimal number ++ codes " ")) }
{
    let mut digits = Buffer::new();
    text.extend_from_slice(digits.format(number).as_bytes())?;
    text.push(b' ')?;
    Ok(())
}

/// Copies a sequence, if one is given.
fn copied(alloc: Global, at: Option<&[u8]>) -> Result<Option<Vec<u8>>, AllocError>
    ensures { IfOk result (λ copy. option_map (λ at. at.items) copy ≡ option_map (λ at. at.now) at.entry) }
{
    match at {
        Some(at) => Ok(Some(Vec::from_slice(alloc, at)?)),
        None => Ok(None),
    }
}

impl Confirm {
    /// Creates the task.
    pub fn new(alloc: Global, at: Option<&[u8]>) -> Result<Confirm, AllocError>
        ensures { IfOk result (IsConfirming (option_map (λ at. at.now) at.entry) [] []) }
    {
        let at = copied(alloc, at)?;
        let blocks = Blocks::new(alloc)?;
        Ok(Confirm {
            alloc,
            blocks,
            leaves: 0,
            held: 0,
            pending: Vec::new(alloc),
            lacks: Lacks::new(alloc),
            at,
            found: None,
            cut: false,
            begun: false,
            sums: false,
            first_leaf: false,
        })
    }

    /// Returns the number of confirmed lines of the journal.
    pub fn confirmed_lines(&self) -> u64
        ensures { (place : Place) → IsAt self.now.blocks place → result ≡ length place.confirmed }
    {
        self.blocks.lines()
    }

    /// Whether the checksums confirm the complete input.
    pub fn is_confirmed(&self) -> bool
        ensures { (place : Place) → IsAt self.now.blocks place
            → result ≡ (not self.now.cut && is_confirmed place) }
    {
        !self.cut && self.blocks.is_confirmed()
    }

    /// Whether two conditions hold: the first input line has a document, and no input line has a checksum.
    pub fn is_without_sums(&self) -> bool
        ensures { result ≡ (self.now.first_leaf && not self.now.sums) }
    {
        self.first_leaf && !self.sums
    }

    /// Whether the caller gave a sequence that no confirmed block has.
    pub fn is_not_found(&self) -> bool
        ensures { result ≡ (is_some self.now.at && is_none self.now.found) }
    {
        self.at.is_some() && self.found.is_none()
    }

    /// Returns the report about the confirmed part of the journal.
    fn report(&self) -> Result<Vec<u8>, AllocError>
        ensures { IfOk result (λ text. (place : Place) → IsAt self.now.blocks place
            → text.items ≡ stored_report self.now place) }
    {
        let mut text = Vec::from_slice(self.alloc, b"confirmed ".as_slice())?;
        push_number(&mut text, self.blocks.bytes())?;
        push_number(&mut text, self.blocks.lines())?;
        push_number(&mut text, self.leaves)?;
        text.extend_from_slice(self.blocks.chain())?;
        text.push(b' ')?;
        text.extend_from_slice(self.blocks.seq())?;
        text.push(b'\n')?;
        self.lacks.push(&mut text)?;
        Ok(text)
    }

    /// Whether the caller gave a sequence, and the last confirmed block has this sequence.
    fn is_at_seq(&self) -> bool
        ensures { (place : Place) → IsAt self.now.blocks place
            → result ≡ is_at_given (option_map (λ at. at.items) self.now.at) place.seq }
    {
        match &self.at {
            Some(at) => is_at(self.blocks.seq(), at.as_slice()),
            None => false,
        }
    }

    /// Records whether the first input line has a document, and whether an input line has a checksum.
    fn look(&mut self, line: &[u8])
        ensures { self.new ≡ looked line.now self.old }
    {
        let first = is_doc(line);
        self.first_leaf = if self.begun { self.first_leaf } else { first };
        self.begun = true;
        self.sums = self.sums | is_sum(line);
    }

    /// Stores a line of the current block, which has `docs` documents with this line. Only a `state` line or a `lacks`
    /// line is kept.
    fn keep(&mut self, line: &[u8], docs: u64) -> Result<(), AllocError>
        ensures { OnOk result (KeepsLine line.now docs self.old self.new) }
    {
        self.held = docs;
        if is_told(line) {
            self.pending.push(Vec::from_slice(self.alloc, line)?)?;
        }
        Ok(())
    }

    /// Records that the checksums confirm the current block of the journal.
    fn close(&mut self) -> Result<(), AllocError>
        ensures { OnOk result (ClosesBlock self.old self.new) }
    {
        self.leaves = added(self.leaves, self.held)?;
        self.held = 0;
        self.lacks.note_all(self.pending.as_slice())?;
        self.pending = Vec::new(self.alloc);
        if self.is_at_seq() {
            return self.store_report();
        }
        Ok(())
    }

    /// Records how the journal reader took the last line.
    fn end_line(&mut self, took: &Took) -> Result<(), AllocError>
        ensures { OnOk result (EndsLine took.now self.old self.new) }
    {
        match took {
            Took::Closed(_) => self.close(),
            Took::Held => Ok(()),
            Took::Damaged => Ok(()),
        }
    }

    /// Stores the report about the confirmed part of the journal.
    fn store_report(&mut self) -> Result<(), AllocError>
        ensures same { OnOk result (self.new ≡ with_found self.old self.new.found) }
        ensures found { OnOk result ((place : Place) → IsAt self.old.blocks place
            → option_map (λ text. text.items) self.new.found ≡ Some (stored_report self.old place)) }
    {
        let report = self.report()?;
        self.found = Some(report);
        Ok(())
    }
}

impl LineTask for Confirm {
    ghost steps = { StepsFor IsConfirming };

    ghost ends = { EndsFor IsConfirming HasConfirmed };

    fn line(&mut self, line: &[u8], _text: &mut Vec<u8>) -> Result<(), AllocError> {
        self.look(line);
        let docs = added(self.held, leaf_of(line))?;
        self.keep(line, docs)?;
        let took = self.blocks.take(line)?;
        self.end_line(&took)?;
        Ok(())
    }

    fn end(&mut self, rest: &[u8], text: &mut Vec<u8>) -> Result<(), AllocError> {
        self.look(rest);
        self.cut = !rest.is_empty();
        if self.at.is_none() {
            let report = self.report()?;
            return text.extend_from_slice(report.as_slice());
        }
        match &self.found {
            Some(report) => text.extend_from_slice(report.as_slice()),
            None => Ok(()),
        }
    }
}

/// Reads a journal, finds the part that the journal's checksums confirm, and writes a report about this part. If the
/// caller gives a sequence `at`, the report ends at the last confirmed block whose sequence equals `at` or begins with
/// `at` and `-`. If no confirmed block matches a given sequence `at`, the output is empty.
///
/// # Errors
///
/// Returns `Read` if the reader failed in this call, or after 4,294,967,295 reads of at most 65,536 bytes. Returns
/// `Write` if the writer failed in this call. Returns `Memory` if an allocation failed or a count would exceed its
/// maximum.
pub fn confirm_journal<R: ScriptRead, W: ScriptWrite>(
    alloc: Global,
    at: Option<&[u8]>,
    reader: &mut R,
    writer: &mut W,
) -> Result<Confirm, ScriptFault>
    ensures took { IfOk result (λ task. (input text : List ℕ) × Appends (R.taken reader.old) (R.taken reader.new) input
        × Appends (W.held writer.old) (W.held writer.new) text
        × HasPrinted (HasConfirmed (option_map (λ at. at.now) at.entry)) input text task) }
    ensures stopped { OnErr result ((input text : List ℕ) × Appends (R.taken reader.old) (R.taken reader.new) input
        × Appends (W.held writer.old) (W.held writer.new) text
        × ((text ≡ []) ⊎ HasPrintedPart (IsConfirming (option_map (λ at. at.now) at.entry))
        (HasConfirmed (option_map (λ at. at.now) at.entry)) (R.ended reader.new) input text)) }
    ensures ended { OnOk result (R.ended reader.new) }
    ensures counted { OnOk result ((R.failures reader.new ≡ R.failures reader.old)
        × (W.failures writer.new ≡ W.failures writer.old)) }
    ensures fault { IfErr result (λ fault. IsFaultOf fault (R.reads reader.old) (R.reads reader.new)
        (R.failures reader.old) (R.failures reader.new) (W.failures writer.old) (W.failures writer.new)) }
{
    let mut task = Confirm::new(alloc, at)?;
    match run_task(alloc, &mut task, reader, writer) {
        Ok(()) => {}
        Err(fault) => return Err(fault),
    }
    Ok(task)
}
