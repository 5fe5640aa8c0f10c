//! The task that splits a list of documents into parts.
ghost use Rattle.std.specs.Prelude.{◌≡◌, ◌++◌, ◌∷◌, [], List, OnErr, OnOk, IfErr, IfOk, length, ℕ, ◌+◌};
ghost use Rattle.script_engine.specs.Faults.{IsFaultOf};
ghost use Rattle.std.specs.Io.KnownBytes.{Appends};
ghost use Rattle.line_reader.specs.Tasks.{HasPrinted, HasPrintedPart};
ghost use Rattle.journal_tasks.specs.Arguments.{EndsFor, StepsFor};
ghost use Rattle.journal_tasks.specs.Splitting.{HasSplit, IsSplitting, has_space, last_text, part_text};

use crate::count::Count;
use itoa::Buffer;
use journal_core::added;
use line_reader::{LineTask, run_task};
use script_engine::{ScriptFault, ScriptRead, ScriptWrite};
use std::alloc::{AllocError, Global};

/// Splits the lines of the input, in order, into parts of at most `most_lines` lines and `most_bytes` bytes. A part
/// always has at least one line, even if this line alone exceeds a maximum. For each part, the task prints a line with
/// the part's numbers of lines and bytes, followed by the part's lines.
///
/// At any time, the task stores only one part of its input in memory.
#[derive(Drop)]
pub struct Parts {
    alloc: Global,
    most_bytes: u64,
    most_lines: u64,
    count: Count,
    part: Vec<u8>,
    lines: u64,
}

/// Appends a line with a part's number of lines and number of bytes, and then the part.
fn push_part(text: &mut Vec<u8>, lines: u64, part: &[u8]) -> Result<(), AllocError>
    ensures { OnOk result (text.new.items ≡ text.old.items ++ part_text lines part.now) }
{
    let mut digits = Buffer::new();
    text.extend_from_slice(b"part ".as_slice())?;
    text.extend_from_slice(digits.format(lines).as_bytes())?;
    text.push(b' ')?;
    text.extend_from_slice(digits.format(part.len()).as_bytes())?;
    text.push(b'\n')?;
    text.extend_from_slice(part)
}

impl Parts {
    /// Creates the task with the maximum numbers of bytes and of lines of a part.
    pub fn new(alloc: Global, most_bytes: u64, most_lines: u64) -> Parts
        ensures { IsSplitting (most_bytes, most_lines) [] [] result }
    {
        Parts {
            alloc,
            most_bytes,
            most_lines,
            count: Count::new(),
            part: Vec::new(alloc),
            lines: 0,
        }
    }

    /// If the last input line has no line end, returns the number of this line, counted from 1.
    pub fn wrong(&self) -> Option<u64>
        ensures { result ≡ self.now.count.wrong }
    {
        self.count.wrong
    }

    /// Whether the current part has space for the given line.
    fn has_space(&self, line: &[u8]) -> bool
        ensures { result ≡ has_space (self.now.most_bytes, self.now.most_lines) self.now.lines (length self.now.part.items)
            (length line.now) }
    {
        let bytes = self.part.len() as u64;
        let size = line.len() as u64;
        self.lines == 0 || self.lines < self.most_lines && bytes + size + 1 <= self.most_bytes
    }

    /// Appends the current part to the text, and begins the next part.
    fn push(&mut self, text: &mut Vec<u8>) -> Result<(), AllocError>
        ensures text { OnOk result (text.new.items ≡ text.old.items ++ part_text self.old.lines self.old.part.items) }
        ensures part { OnOk result (self.new.part.items ≡ []) }
        ensures lines { OnOk result (self.new.lines ≡ 0) }
        ensures most_bytes { OnOk result (self.new.most_bytes ≡ self.old.most_bytes) }
        ensures most_lines { OnOk result (self.new.most_lines ≡ self.old.most_lines) }
        ensures count { OnOk result (self.new.count ≡ self.old.count) }
    {
        push_part(text, self.lines, self.part.as_slice())?;
        self.part.clear();
        self.lines = 0;
        Ok(())
    }

    /// Appends the current part to the text, if the part has lines.
    fn push_last(&mut self, text: &mut Vec<u8>) -> Result<(), AllocError>
        ensures text { OnOk result (text.new.items ≡ text.old.items ++ last_text self.old.lines self.old.part.items) }
        ensures count { OnOk result (self.new.count ≡ self.old.count) }
    {
        if self.lines == 0 {
            return Ok(());
        }
        self.push(text)
    }

    /// Adds a line to the current part.
    fn add(&mut self, line: &[u8]) -> Result<(), AllocError>
        ensures part { OnOk result (self.new.part.items ≡ self.old.part.items ++ (line.now ++ 10 ∷ [])) }
        ensures lines { OnOk result (self.new.lines ≡ self.old.lines + 1) }
        ensures most_bytes { OnOk result (self.new.most_bytes ≡ self.old.most_bytes) }
        ensures most_lines { OnOk result (self.new.most_lines ≡ self.old.most_lines) }
        ensures count { OnOk result (self.new.count ≡ self.old.count) }
    {
        self.part.extend_from_slice(line)?;
        self.part.push(b'\n')?;
        self.lines = added(self.lines, 1)?;
        Ok(())
    }
}

impl LineTask for Parts {
    ghost steps = { StepsFor IsSplitting };

    ghost ends = { EndsFor IsSplitting HasSplit };

    fn line(&mut self, line: &[u8], text: &mut Vec<u8>) -> Result<(), AllocError> {
        self.count.add()?;
        if self.has_space(line) {
            return self.add(line);
        }
        self.push(text)?;
        self.add(line)
    }

    fn end(&mut self, rest: &[u8], text: &mut Vec<u8>) -> Result<(), AllocError> {
        self.count.end(rest)?;
        if !self.count.is_right() {
            return Ok(());
        }
        self.push_last(text)
    }
}

/// Splits the lines of an input into parts of at most `most_lines` lines and `most_bytes` bytes, and writes each part
/// after its numbers of lines and bytes. A part has at least one line, even if this line alone exceeds a maximum.
///
/// # Errors
///
/// Returns `Read` if the reader failed in this call, or after 4,294,967,295 reads of at most 65,536 bytes. Returns
/// `Write` if the writer failed in this call. Returns `Memory` if an allocation failed, or if a count is at its
/// maximum.
pub fn split_lines<R: ScriptRead, W: ScriptWrite>(
    alloc: Global,
    most_bytes: u64,
    most_lines: u64,
    reader: &mut R,
    writer: &mut W,
) -> Result<Parts, ScriptFault>
    ensures took { IfOk result (λ task. (input text : List ℕ) × Appends (R.taken reader.old) (R.taken reader.new) input
        × Appends (W.held writer.old) (W.held writer.new) text
        × HasPrinted (HasSplit (most_bytes, most_lines)) input text task) }
    ensures stopped { OnErr result ((input text : List ℕ) × Appends (R.taken reader.old) (R.taken reader.new) input
        × Appends (W.held writer.old) (W.held writer.new) text
        × HasPrintedPart (IsSplitting (most_bytes, most_lines)) (HasSplit (most_bytes, most_lines)) (R.ended reader.new)
        input text) }
    ensures ended { OnOk result (R.ended reader.new) }
    ensures counted { OnOk result ((R.failures reader.new ≡ R.failures reader.old)
        × (W.failures writer.new ≡ W.failures writer.old)) }
    ensures fault { IfErr result (λ fault. IsFaultOf fault (R.reads reader.old) (R.reads reader.new)
        (R.failures reader.old) (R.failures reader.new) (W.failures writer.old) (W.failures writer.new)) }
{
    let mut task = Parts::new(alloc, most_bytes, most_lines);
    match run_task(alloc, &mut task, reader, writer) {
        Ok(()) => {}
        Err(fault) => return Err(fault),
    }
    Ok(task)
}
