//! The task that prints the last state of each document of a journal.
ghost use Rattle.std.specs.Prelude.{◌≡◌, ◌⊎◌, [], ℕ, List, IfErr, IfOk, OnErr, OnOk, length};
ghost use Rattle.script_engine.specs.Faults.{IsFaultOf};
ghost use Rattle.std.specs.Io.KnownBytes.{Appends};
ghost use Rattle.line_reader.specs.Tasks.{HasPrinted, HasPrintedPart};
ghost use Rattle.journal_core.specs.Places.{IsAt, Place};
ghost use Rattle.journal_tasks.specs.Arguments.{EndsFor, StepsFor};
ghost use Rattle.journal_tasks.specs.Stating.{HasStated, IsStating};

use crate::journal::Journal;
use crate::state_map::push_states;
use line_reader::{LineTask, run_task};
use script_engine::{ScriptFault, ScriptRead, ScriptWrite};
use std::alloc::{AllocError, Global};

/// Prints the last state of each document of a journal, if the checksums confirm the complete journal.
///
/// The task holds one block and the state of each document in memory.
#[derive(Drop)]
pub struct States {
    alloc: Global,
    journal: Journal,
}

impl States {
    /// Creates the task. If `unverified` is true, the task ignores the journal's checksums.
    pub fn new(alloc: Global, unverified: bool) -> Result<States, AllocError>
        ensures { IfOk result (IsStating unverified [] []) }
    {
        let journal = Journal::new(alloc, unverified)?;
        Ok(States { alloc, journal })
    }

    /// Returns the number (from 1) of the first input line that is not a valid line of a journal.
    pub fn wrong(&self) -> Option<u64>
        ensures { result ≡ self.now.journal.count.wrong }
    {
        self.journal.count.wrong
    }

    /// Returns the number of confirmed lines of the journal.
    pub fn confirmed_lines(&self) -> u64
        ensures { (place : Place) → IsAt self.now.journal.blocks place → result ≡ length place.confirmed }
    {
        self.journal.blocks.lines()
    }

    /// Whether the journal ends with an incomplete line, or has a line that the journal's checksums do not confirm. If
    /// the task ignores checksums (`unverified`), only an incomplete last line counts as damage.
    pub fn is_damaged(&self) -> bool
        ensures { result ≡ self.now.journal.damaged }
    {
        self.journal.damaged
    }
}

impl LineTask for States {
    ghost steps = { StepsFor IsStating };

    ghost ends = { EndsFor IsStating HasStated };

    fn line(&mut self, line: &[u8], _text: &mut Vec<u8>) -> Result<(), AllocError> {
        self.journal.line(line)?;
        Ok(())
    }

    fn end(&mut self, rest: &[u8], text: &mut Vec<u8>) -> Result<(), AllocError> {
        if !rest.is_empty() || !self.journal.is_confirmed() {
            self.journal.damaged = true;
            return Ok(());
        }
        if !self.journal.count.is_right() {
            return Ok(());
        }
        push_states(self.alloc, &self.journal.states, text)
    }
}

/// Reads a journal, and writes the last state of each document, if the checksums confirm the complete journal. If
/// `unverified` is true, the call ignores the checksums.
///
/// # Errors
///
/// Returns `Read` if the reader failed in this call, or after 4,294,967,295 reads of at most 65,536 bytes. Returns
/// `Write` if the writer failed in this call. Returns `Memory` if an allocation failed, or if a count is at its
/// maximum.
pub fn last_states<R: ScriptRead, W: ScriptWrite>(
    alloc: Global,
    unverified: bool,
    reader: &mut R,
    writer: &mut W,
) -> Result<States, ScriptFault>
    ensures took { IfOk result (λ task. (input text : List ℕ) × Appends (R.taken reader.old) (R.taken reader.new) input
        × Appends (W.held writer.old) (W.held writer.new) text
        × HasPrinted (HasStated unverified) input text task) }
    ensures stopped { OnErr result ((input text : List ℕ) × Appends (R.taken reader.old) (R.taken reader.new) input
        × Appends (W.held writer.old) (W.held writer.new) text
        × ((text ≡ []) ⊎ HasPrintedPart (IsStating unverified) (HasStated unverified) (R.ended reader.new) input text)) }
    ensures ended { OnOk result (R.ended reader.new) }
    ensures counted { OnOk result ((R.failures reader.new ≡ R.failures reader.old)
        × (W.failures writer.new ≡ W.failures writer.old)) }
    ensures fault { IfErr result (λ fault. IsFaultOf fault (R.reads reader.old) (R.reads reader.new)
        (R.failures reader.old) (R.failures reader.new) (W.failures writer.old) (W.failures writer.new)) }
{
    let mut task = States::new(alloc, unverified)?;
    match run_task(alloc, &mut task, reader, writer) {
        Ok(()) => {}
        Err(fault) => return Err(fault),
    }
    Ok(task)
}
