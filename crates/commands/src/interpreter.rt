//! Runs scripts of commands on in-memory databases.
ghost use Rattle.std.specs.Prelude.{◌≡◌, ◌⊎◌, ℕ, List, [], true, IfOk, IfErr, OnOk};
ghost use Rattle.serde_json.specs.Data.{Members, object};
ghost use Rattle.json_values.specs.LineView.{line_view};
ghost use Rattle.std.specs.Io.KnownBytes.{Appends, Consumes, IsAtEnd};
ghost use Rattle.script_engine.specs.Device.{Gives};
ghost use Rattle.script_engine.specs.Script.{AnswersEnded, IsAnswered};
ghost use Rattle.script_engine.specs.Faults.{IsFaultOf, IsSent, IsToldUntil};
ghost use Rattle.script_engine.specs.declared.fault.ScriptFault.TheVariants.{Read};
ghost use Rattle.script_databases.specs.Databases.{State, no_databases};
ghost use Rattle.script_databases.specs.declared.refusal.Refusal.TheVariants.{BadLine, Memory};
ghost use Rattle.script_engine.specs.Serving.{Fits, IsSplit, MayTell};
ghost use Rattle.commands.specs.Script.{IsNoObject, IsObject, LinesAnswer};
ghost use Rattle.commands.specs.Trust.{TrustedLines};
ghost use Rattle.read_commands.specs.Rest.{FitsRest, rest_left, told_begun};
ghost use Rattle.script_databases.specs.Stored.{program_of};

use crate::observe_answer::ObserveAnswers;
use crate::words;
use json_values::{Line, ReadFault, ValueReader};
use read_commands::Rest;
use script_databases::{Databases, Refusal, Settings};
use script_engine::{ScriptFault, ScriptRead, ScriptWrite, Serve, leave, run_lines};
use std::alloc::{AllocError, Global};
use std::marker::Model;
use std::mem;
use std::sync::Wait;
use std::thread::Threads;

/// The interpreter of a script, with the script's databases, the runtime, the JSON reader, and the observer.
#[derive(Drop)]
struct Interpreter<'a, H, L> {
    rt: &'a H,
    alloc: Global,
    values: ValueReader,
    databases: Databases,
    listener: L,
}

impl<'a, H, L> Model for Interpreter<'a, H, L> {
    ghost use Rattle.script_databases.specs.Databases.{State, coded_state};

    ghost Value = { State };

    ghost coded = { coded_state };

    ghost view = { λ a. a.databases };
}

impl<'a, H: Threads + Wait + Sync, L: ObserveAnswers> Serve for Interpreter<'a, H, L> {
    ghost use Rattle.std.specs.Thread.{IsSync};
    ghost use Rattle.read_commands.specs.Rest.{FitsRest, rest_left};

    ghost can_serve = { IsSync H.row };

    ghost answers = { TrustedLines };

    type Rest = Rest;

    ghost fits = { FitsRest };

    ghost left = { rest_left };

    fn serve(&mut self, line: &[u8], answer: &mut Vec<u8>) -> Result<Option<Rest>, &'static str> {
        let rest = match answer_line(
            self.rt,
            self.alloc,
            &mut self.values,
            &mut self.databases,
            line,
            answer,
        ) {
            Ok(rest) => rest,
            Err(refusal) => return Err(refusal.name()),
        };
        self.listener.observe_answer(answer.as_slice());
        Ok(rest)
    }

    fn more(&self, rest: &mut Rest, piece: &mut Vec<u8>) -> Result<bool, AllocError> {
        rest.more(self.alloc, &self.databases, piece)
    }

    #[inline]
    fn observe(&mut self, number: u64, line: &[u8], refused: Option<&'static str>) {
        self.listener.observe(number, line, refused);
    }
}

/// Runs a line that is not blank, and writes the line's output into the buffer. If the buffer gets only the first piece
/// of the output, the call returns the rest.
fn answer_line<H: Threads + Wait + Sync>(
    rt: &H,
    alloc: Global,
    values: &mut ValueReader,
    databases: &mut Databases,
    line: &[u8],
    answer: &mut Vec<u8>,
) -> Result<Option<Rest>, Refusal>
    requires { answer.old.items ≡ [] }
    ensures told { MayTell TrustedLines databases.old line.now (told_begun databases.new result answer.new.items)
        databases.new }
    ensures fits { IfOk result (λ rest. Fits (FitsRest databases.new) rest) }
    ensures split { IfOk result (λ rest. IsSplit 65536 (rest_left databases.new) true answer.new.items rest) }
{
    databases.law();
    let value = match read_object(values, alloc, line) {
        Ok(value) => value,
        Err(refusal) => return Err(refusal),
    };
    let served = words::serve(rt, alloc, databases, &value, answer);
    databases.law();
    served
}

/// Parses a line as a JSON object.
///
/// # Errors
///
/// The call returns `BadLine` if the line is not a JSON object. The call may return `Memory` for any line.
pub fn read_object<'a>(
    values: &'a mut ValueReader,
    alloc: Global,
    line: &'a [u8],
) -> Result<Line<'a>, Refusal>
    ensures ok { IfOk result (λ value. (ms : Members) × IsObject line.now ms × (line_view value ≡ object ms)) }
    ensures err { IfErr result (λ why. (why ≡ Memory) ⊎ ((why ≡ BadLine) × IsNoObject line.now)) }
{
    let value = match values.read_line(alloc, line) {
        Ok(value) => value,
        Err(ReadFault::NotJson) => return Err(Refusal::BadLine),
        Err(ReadFault::Memory) => return Err(Refusal::Memory),
    };
    if !value.value().is_object() {
        return Err(Refusal::BadLine);
    }
    Ok(value)
}

/// Runs a script. The call reads lines to the end of the input, runs each line as one command, and writes the output of
/// all lines in order (docs/PROFILE.md, "Command lines" and "Answers"). Returns true if no line failed.
///
/// Before each read, the output of all lines read so far is flushed. A line that runs out of memory fails with
/// `Memory`, and the script continues. The observer gets the result of each line and the start of the line's output,
/// and does not affect the output.
///
/// The call waits for the threads of `replicate` and `sync` lines. The contract does not guarantee that the call
/// returns. The call does not free the databases, because freeing the databases takes long and the program ends after
/// this call.
///
/// # Errors
///
/// - `Read`: the reader failed in this call, or 4,294,967,295 reads of at most 65,536 bytes were made.
/// - `Write`: the writer failed in this call.
/// - `Memory`: an allocation failed before anything was read, or while a line was read. The output of all earlier lines
///   is then complete.
/// - `Cut`: an allocation failed after the first piece of a line's output. The output of this line is then incomplete,
///   and the output of all earlier lines is complete.
pub fn run_script<H, R: ScriptRead, W: ScriptWrite, L: ObserveAnswers>(
    rt: &H,
    reader: &mut R,
    writer: &mut W,
    listener: L,
    settings: &Settings,
) -> Result<bool, ScriptFault>
where
    H: AllocGlobal + Threads + Wait + Sync,
    // If the call succeeds, the written text is the output of all lines of the complete input.
    ensures answers { IfOk result
        (λ clean. (input : List ℕ) × (text : List ℕ) × (state : State) × Gives (R.left reader.old) input
        × Appends (W.held writer.old) (W.held writer.new) text
        × IsAnswered LinesAnswer (no_databases (program_of settings.now)) input clean text state) }
    // All databases are consistent with each other before and after every line. Because all databases are consistent,
    // an `audit` line never reports a leaf that is not covered. If a `replicate` line prints that its session reached
    // its goal, the target covers the source's selected feed.
    ensures trust { IfOk result
        (λ clean. (input : List ℕ) × (text : List ℕ) × (state : State) × Gives (R.left reader.old) input
        × Appends (W.held writer.old) (W.held writer.new) text
        × IsAnswered TrustedLines (no_databases (program_of settings.now)) input clean text state) }
    ensures end { OnOk result (IsAtEnd (R.left reader.new)) }
    // The clauses `answers` and `trust` are about all bytes that the reader can return. The clause `took` gives the
    // guarantees of `answers` and `trust` for the bytes that the call has read. The clause `ended` says that the last
    // read found the end of the input.
    ensures took { IfOk result
        (λ clean. (input : List ℕ) × (text : List ℕ) × (state : State)
        × Appends (R.taken reader.old) (R.taken reader.new) input × Appends (W.held writer.old) (W.held writer.new) text
        × IsAnswered TrustedLines (no_databases (program_of settings.now)) input clean text state) }
    ensures ended { OnOk result (R.ended reader.new) }
    ensures counted { OnOk result ((R.failures reader.new ≡ R.failures reader.old)
        × (W.failures writer.new ≡ W.failures writer.old)) }
    // If the call returns an error, the written text is a prefix of the output of all lines. The statement `IsFaultOf`
    // says which failures cause the errors `Read` and `Write`. The error `Memory` occurs only before the first read, or
    // while a line is read. After `Memory`, the output of all earlier lines is complete.
    ensures fault { IfErr result (λ fault. (input : List ℕ) × (text : List ℕ) × Gives (R.left reader.old) input
        × Appends (W.held writer.old) (W.held writer.new) text
        × IsToldUntil fault LinesAnswer (no_databases (program_of settings.now)) input text
        × IsFaultOf fault (R.reads reader.old) (R.reads reader.new) (R.failures reader.old) (R.failures reader.new)
        (W.failures writer.old) (W.failures writer.new)) }
    // The clause `trust_until` says what is guaranteed for the output that the call wrote before an error.
    ensures trust_until { IfErr result (λ fault. (input : List ℕ) × (text : List ℕ) × Gives (R.left reader.old) input
        × Appends (W.held writer.old) (W.held writer.new) text
        × IsToldUntil fault TrustedLines (no_databases (program_of settings.now)) input text) }
    ensures took_until { IfErr result (λ fault. (input : List ℕ) × (text : List ℕ)
        × Appends (R.taken reader.old) (R.taken reader.new) input × Appends (W.held writer.old) (W.held writer.new) text
        × IsToldUntil fault TrustedLines (no_databases (program_of settings.now)) input text) }
    // If a read fails, the output of all lines that were read is complete. Unless a write failed, the call has flushed
    // the output of all lines that were read. The clause `read` describes the output and the databases before a failed
    // read. Because each read may fail, the clause applies before each read.
    ensures read { IfErr result (λ fault. fault ≡ Read → (taken : List ℕ) × (text : List ℕ) × (state : State)
        × Consumes (R.left reader.old) (R.left reader.new) taken × Appends (W.held writer.old) (W.held writer.new) text
        × AnswersEnded TrustedLines (no_databases (program_of settings.now)) taken text state) }
    ensures took_in { IfErr result (λ fault. fault ≡ Read → (input : List ℕ) × (text : List ℕ) × (state : State)
        × Appends (R.taken reader.old) (R.taken reader.new) input × Appends (W.held writer.old) (W.held writer.new) text
        × AnswersEnded TrustedLines (no_databases (program_of settings.now)) input text state) }
    ensures sent { IsSent result (W.held writer.new) (W.sent writer.new) }
{
    let databases = match Databases::new(rt.alloc(), settings) {
        Ok(databases) => databases,
        Err(refused) => return Err(leave(writer, ScriptFault::from(refused))),
    };
    let (ended, databases) = run_on(rt, rt.alloc(), databases, reader, writer, listener);
    mem::forget(databases);
    ended
}

/// Runs a script on existing databases, and returns the databases after the script.
fn run_on<H: Threads + Wait + Sync, R: ScriptRead, W: ScriptWrite, L: ObserveAnswers>(
    rt: &H,
    alloc: Global,
    databases: Databases,
    reader: &mut R,
    writer: &mut W,
    listener: L,
) -> (Result<bool, ScriptFault>, Databases)
    ensures answers { IfOk result.0 (λ clean. (input : List ℕ) × (text : List ℕ) × Gives (R.left reader.old) input
        × Appends (W.held writer.old) (W.held writer.new) text
        × IsAnswered TrustedLines databases input clean text result.1) }
    ensures end { OnOk result.0 (IsAtEnd (R.left reader.new)) }
    ensures took { IfOk result.0 (λ clean. (input : List ℕ) × (text : List ℕ)
        × Appends (R.taken reader.old) (R.taken reader.new) input × Appends (W.held writer.old) (W.held writer.new) text
        × IsAnswered TrustedLines databases input clean text result.1) }
    ensures ended { OnOk result.0 (R.ended reader.new) }
    ensures counted { OnOk result.0 ((R.failures reader.new ≡ R.failures reader.old)
        × (W.failures writer.new ≡ W.failures writer.old)) }
    ensures fault { IfErr result.0 (λ fault. (input : List ℕ) × (text : List ℕ) × Gives (R.left reader.old) input
        × Appends (W.held writer.old) (W.held writer.new) text × IsToldUntil fault TrustedLines databases input text
        × IsFaultOf fault (R.reads reader.old) (R.reads reader.new) (R.failures reader.old) (R.failures reader.new)
        (W.failures writer.old) (W.failures writer.new)) }
    ensures read { IfErr result.0 (λ fault. fault ≡ Read → (taken : List ℕ) × (text : List ℕ)
        × Consumes (R.left reader.old) (R.left reader.new) taken × Appends (W.held writer.old) (W.held writer.new) text
        × AnswersEnded TrustedLines databases taken text result.1) }
    ensures took_until { IfErr result.0 (λ fault. (input : List ℕ) × (text : List ℕ)
        × Appends (R.taken reader.old) (R.taken reader.new) input × Appends (W.held writer.old) (W.held writer.new) text
        × IsToldUntil fault TrustedLines databases input text) }
    ensures took_in { IfErr result.0 (λ fault. fault ≡ Read → (input : List ℕ) × (text : List ℕ)
        × Appends (R.taken reader.old) (R.taken reader.new) input × Appends (W.held writer.old) (W.held writer.new) text
        × AnswersEnded TrustedLines databases input text result.1) }
    ensures sent { IsSent result.0 (W.held writer.new) (W.sent writer.new) }
{
    let mut interpreter = Interpreter {
        rt,
        alloc,
        values: ValueReader::new(alloc),
        databases,
        listener,
    };
    let ended = run_lines(alloc, &mut interpreter, reader, writer);
    let Interpreter {
        rt: _,
        alloc: _,
        values: _,
        databases,
        mut listener,
    } = interpreter;
    listener.close();
    (ended, databases)
}
