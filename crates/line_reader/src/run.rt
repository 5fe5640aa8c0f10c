//! Runs a task over the lines that a reader returns.
ghost use Rattle.std.specs.Prelude.{◌≡◌, ◌∷◌, [], ◌++◌, ℕ, List, Option, Bool, IfErr, OnErr, OnOk, false};
ghost use Rattle.std.specs.Io.KnownBytes.{IsAtEnd};
ghost use Rattle.script_engine.specs.Chunks.{AreChunks};
ghost use Rattle.script_engine.specs.Faults.{IsOfWriter, IsFaultOf};
ghost use Rattle.line_reader.specs.Tasks.{HasDone, HasRun, HasStopped, IsDone, IsDoneOn, IsStoppedOn};

use crate::task::LineTask;
use memchr::memchr;
use script_engine::{Chunks, ScriptFault, ScriptRead, ScriptWrite, write_all};
use std::alloc::{AllocError, Global};

/// The state of a task's run between two bytes of the input.
#[derive(Drop)]
struct Progress {
    /// The bytes of the current line so far, without the line's end.
    begun: Vec<u8>,
    /// The buffer for the text that the task appends.
    text: Vec<u8>,
}

/// Passes the current line to the task at the line's end, and writes the text that the task appends.
fn end_line<T: LineTask, W: ScriptWrite>(
    task: &mut T,
    progress: &mut Progress,
    writer: &mut W,
) -> Result<(), ScriptFault>
    ensures ok { OnOk result ((start : T) (held : Option (List ℕ)) (taken : List ℕ)
        → HasRun T.steps start held taken task.old progress.old.begun.items (W.held writer.old)
        → HasRun T.steps start held (taken ++ 10 ∷ []) task.new progress.new.begun.items (W.held writer.new)) }
    ensures err { OnErr result ((start : T) (held : Option (List ℕ)) (taken more : List ℕ)
        → HasRun T.steps start held taken task.old progress.old.begun.items (W.held writer.old)
        → IsStoppedOn false T.steps T.ends start (λ input. input ≡ (taken ++ 10 ∷ []) ++ more) held (W.held writer.new)) }
    ensures counted { OnOk result (W.failures writer.new ≡ W.failures writer.old) }
    ensures fault { IfErr result (λ fault. IsOfWriter fault (W.failures writer.old) (W.failures writer.new)) }
{
    progress.text.clear();
    task.line(progress.begun.as_slice(), &mut progress.text)?;
    match write_all(writer, progress.text.as_slice()) {
        Ok(()) => {}
        Err(fault) => return Err(fault),
    }
    progress.begun.clear();
    Ok(())
}

/// Appends bytes without a line end to the current line.
fn take_in(progress: &mut Progress, bytes: &[u8]) -> Result<(), AllocError>
    ensures { OnOk result (progress.new.begun.items ≡ progress.old.begun.items ++ bytes.now) }
{
    progress.begun.extend_from_slice(bytes)
}

/// Processes the next bytes of the input. If a line ends in these bytes, passes the line to the task, and writes the
/// text that the task appends.
fn feed<T: LineTask, W: ScriptWrite>(
    task: &mut T,
    progress: &mut Progress,
    writer: &mut W,
    bytes: &[u8],
) -> Result<(), ScriptFault>
    ensures ok { OnOk result ((start : T) (held : Option (List ℕ)) (taken : List ℕ)
        → HasRun T.steps start held taken task.old progress.old.begun.items (W.held writer.old)
        → HasRun T.steps start held (taken ++ bytes.now) task.new progress.new.begun.items (W.held writer.new)) }
    ensures err { OnErr result ((start : T) (held : Option (List ℕ)) (taken : List ℕ)
        → HasRun T.steps start held taken task.old progress.old.begun.items (W.held writer.old)
        → IsStoppedOn false T.steps T.ends start (λ input. input ≡ taken ++ bytes.now) held (W.held writer.new)) }
    ensures counted { OnOk result (W.failures writer.new ≡ W.failures writer.old) }
    ensures fault { IfErr result (λ fault. IsOfWriter fault (W.failures writer.old) (W.failures writer.new)) }
{
    let mut rest = bytes;
    while let Some(end) = memchr(10, rest) {
        take_in(progress, &rest[..end])?;
        match end_line(task, progress, writer) {
            Ok(()) => {}
            Err(fault) => return Err(fault),
        }
        rest = &rest[end + 1..];
    }
    take_in(progress, rest)?;
    Ok(())
}

/// Passes the rest of the input after the last line end to the task, and writes the text that the task appends.
fn finish<T: LineTask, W: ScriptWrite>(
    task: &mut T,
    progress: &mut Progress,
    writer: &mut W,
) -> Result<(), ScriptFault>
    ensures ok { OnOk result ((start : T) (held : Option (List ℕ)) (input : List ℕ)
        → HasRun T.steps start held input task.old progress.old.begun.items (W.held writer.old)
        → IsDoneOn T.steps T.ends start (λ bytes. bytes ≡ input) held task.new (W.held writer.new)) }
    ensures err { OnErr result ((start : T) (held : Option (List ℕ)) (input : List ℕ)
        → HasRun T.steps start held input task.old progress.old.begun.items (W.held writer.old)
        → (at_end : Bool) × IsStoppedOn at_end T.steps T.ends start (λ bytes. bytes ≡ input) held (W.held writer.new)) }
    ensures counted { OnOk result (W.failures writer.new ≡ W.failures writer.old) }
    ensures fault { IfErr result (λ fault. IsOfWriter fault (W.failures writer.old) (W.failures writer.new)) }
{
    progress.text.clear();
    task.end(progress.begun.as_slice(), &mut progress.text)?;
    match write_all(writer, progress.text.as_slice()) {
        Ok(()) => Ok(()),
        Err(fault) => Err(fault),
    }
}

/// Passes all lines that a reader returns to a task, and writes the text that the task appends. Memory holds only the
/// current line and the task's state.
///
/// # Errors
///
/// Returns `Read` if the reader failed in this call, or after 4,294,967,295 reads of at most 65,536 bytes. Returns
/// `Write` if the writer failed in this call. Returns `Memory` if an allocation failed, or if a count of the task is at
/// its maximum.
///
/// After an error, the writer has accepted the task's complete output for zero or more of the input's first lines.
/// After an error, the writer may also have accepted a part of the output for the next line or for the input's end.
pub fn run_task<T: LineTask, R: ScriptRead, W: ScriptWrite>(
    alloc: Global,
    task: &mut T,
    reader: &mut R,
    writer: &mut W,
) -> Result<(), ScriptFault>
    ensures ok { OnOk result (IsDone T.steps T.ends task.old (R.left reader.old) (W.held writer.old) task.new
        (W.held writer.new)) }
    ensures took { OnOk result (HasDone T.steps T.ends task.old (R.taken reader.old) (R.taken reader.new)
        (W.held writer.old) task.new (W.held writer.new)) }
    ensures stopped { OnErr result (HasStopped T.steps T.ends task.old (R.ended reader.new) (R.taken reader.old)
        (R.taken reader.new) (W.held writer.old) (W.held writer.new)) }
    ensures end { OnOk result (IsAtEnd (R.left reader.new)) }
    ensures ended { OnOk result (R.ended reader.new) }
    ensures counted { OnOk result ((R.failures reader.new ≡ R.failures reader.old)
        × (W.failures writer.new ≡ W.failures writer.old)) }
    ensures fault { IfErr result (λ fault. IsFaultOf fault (R.reads reader.old) (R.reads reader.new)
        (R.failures reader.old) (R.failures reader.new) (W.failures writer.old) (W.failures writer.new)) }
{
    let mut chunks = Chunks::new(alloc)?;
    let mut progress = Progress {
        begun: Vec::new(alloc),
        text: Vec::new(alloc),
    };
    loop {
        let more = match chunks.next(reader) {
            Ok(more) => more,
            Err(fault) => return Err(fault),
        };
        if !more {
            return finish(task, &mut progress, writer);
        }
        match feed(task, &mut progress, writer, chunks.bytes()) {
            Ok(()) => {}
            Err(fault) => return Err(fault),
        }
    }
}
