//! Runs the program with its arguments and its standard streams, and determines its exit status.
ghost use Rattle.std.specs.Prelude.{◌≡◌, ◌≤◌, ◌⊎◌, ℕ, List, Some, IfOk, map, string_bytes};
ghost use Rattle.std.specs.Io.KnownBytes.{Keeps};
ghost use Rattle.couch_journal.specs.Runs.{RunsStandard};
ghost use Rattle.couch_journal.specs.Status.{ended_status, status_of, unflushed, unwritten};

use crate::ended::{Ended, Outcome};
use crate::options::NoTask;
use crate::run::run_words;
use cli_common::{
    BAD_COMMAND_LINE, report_arguments, report_bad_arguments, report_out_of_memory, words_of,
};
use journal_responses::Said;
use script_engine::{OverRead, OverWrite, Recorder, ScriptFault, ScriptRead, ScriptWrite};
use std::env::Env;
use std::io;
use std::io::{Eprint, Input, Print, Printer, Write};

/// Runs the program, and returns its exit status. The exit status is 0 for success, help or version, 1 if the task's
/// outcome is `Missing`, and 2 for a usage error. The exit status is 3 if the input is damaged or does not have the
/// form that the task reads, or if reading, writing or an allocation failed.
pub(crate) fn run_program<H: AllocGlobal + Env + Input + Print + Eprint>(rt: &H) -> u8
    ensures { result ≤ 3 }
{
    match words_of(rt) {
        Ok(words) => match run_standard(rt, words.as_slice()) {
            Ok((ended, _reader, _writer)) => tell(rt, &ended),
            Err(_) => report_out_of_memory(rt),
        },
        Err(error) => report_bad_arguments(rt, &error),
    }
}

/// Runs the program on standard input and output. Returns how the run ended, the reader of standard input, and the
/// writer of standard output. The contract of `run_standard` describes the input that was read and the output that was
/// written. The output is buffered, and flushed at the end of the run.
///
/// # Errors
///
/// Returns `OutOfMemory` if the output buffer cannot be allocated. If the output buffer cannot be allocated, the call
/// reads and writes no byte.
fn run_standard<'a, H>(
    rt: &'a H,
    words: &[String],
) -> io::Result<(Ended, OverRead<H::Reader>, Recorder<Printer<'a, H>>)>
where
    H: AllocGlobal + Input + Print,
    ensures { IfOk result (λ ran. (input : List ℕ) × (text : List ℕ)
        × (⟦<OverRead<H::Reader> as ScriptRead>⟧.taken ran.1 ≡ Some input)
        × (⟦<Recorder<Printer<'a, H>> as Write>⟧.contents ran.2 ≡ Some text)
        × RunsStandard (map string_bytes words.now) (⟦<OverRead<H::Reader> as ScriptRead>⟧.ended ran.1) input text
        ran.0) }
{
    let mut writer = OverWrite::new(rt.alloc(), Recorder::new(io::writer(rt)))?;
    let mut reader = OverRead::new(rt.reader());
    let first = run_words(rt.alloc(), words, &mut reader, &mut writer);
    let ended = flushed(&mut writer, first);
    Ok((ended, reader, writer.into_inner()))
}

/// Flushes the output, and returns how the run ended. If flushing succeeds, returns `first`. If flushing fails, returns
/// the result of `unflushed`.
fn flushed<W: ScriptWrite>(writer: &mut W, first: Ended) -> Ended
    ensures kept { Keeps (W.held writer.old) (W.held writer.new) }
    ensures flushed { (Keeps (W.held writer.new) (W.sent writer.new) × (result ≡ first)) ⊎ (result ≡ unflushed first) }
{
    match writer.flush() {
        Ok(()) => first,
        Err(_) => unflushed(first),
    }
}

/// Returns how a run ends after the program failed to flush the run's last output. If no task ran or the task had
/// already failed, the result of the run does not change. Otherwise the run ends with the error `Write`.
fn unflushed(ended: Ended) -> Ended
    ensures { result ≡ unflushed ended }
{
    match ended {
        Ended::Ran(result) => Ended::Ran(unwritten(result)),
        Ended::NotRun(why) => Ended::NotRun(why),
    }
}

/// Returns the result of a task whose last output could not be flushed. If the task ended with `Done` or `Missing`, the
/// result is the error `Write`. Any other result of the task stays unchanged.
fn unwritten(ran: Result<Outcome, ScriptFault>) -> Result<Outcome, ScriptFault>
    ensures { result ≡ unwritten ran }
{
    match ran {
        Ok(Outcome::Done) | Ok(Outcome::Missing) => Err(ScriptFault::Write),
        Ok(outcome) => Ok(outcome),
        Err(fault) => Err(fault),
    }
}

/// Reports how a run ended, unless the run succeeded, and returns the exit status.
fn tell<H: Print + Eprint>(rt: &H, ended: &Ended) -> u8
    ensures { result ≡ ended_status ended.now }
{
    match ended {
        Ended::NotRun(NoTask::Words(error)) => report_arguments(rt, error),
        Ended::NotRun(NoTask::Unknown) => {
            let _ = eprintln!(rt;
                "error: unknown task or wrong arguments; see couch_journal --help"
            );
            BAD_COMMAND_LINE
        }
        Ended::NotRun(NoTask::Memory) => report_out_of_memory(rt),
        Ended::Ran(result) => tell_result(rt, result),
    }
}

/// Reports the result of a task, unless the task succeeded, and returns the exit status.
fn tell_result(rt: &impl Eprint, ran: &Result<Outcome, ScriptFault>) -> u8
    ensures { result ≡ status_of ran.now }
{
    match ran {
        Ok(Outcome::Done) => 0,
        Ok(Outcome::Missing) => 1,
        Ok(Outcome::Wrong(line)) => {
            let _ = eprintln!(rt; "error: line {line} has another form");
            3
        }
        Ok(Outcome::Damaged(lines)) => {
            let _ = eprintln!(rt; "error: damaged after line {lines}");
            3
        }
        Ok(Outcome::NoSums) => {
            let _ = eprintln!(rt; "error: has no checksums");
            3
        }
        Ok(Outcome::Differs) => {
            let _ = eprintln!(rt; "error: the second copy differs from the first");
            3
        }
        Ok(Outcome::Said(said)) => tell_said(rt, said),
        Err(fault) => {
            let _ = eprintln!(rt; "{fault}");
            3
        }
    }
}

/// Reports why a response does not have the requested form, and returns the exit status.
fn tell_said(rt: &impl Eprint, said: &Said) -> u8
    ensures { result ≡ 3 }
{
    match said {
        Said::Error(error, reason) => {
            let _ = eprintln!(rt; "CouchDB says {error}: {reason}");
        }
        Said::NotJson => {
            let _ = eprintln!(rt; "error: the input is not JSON, or it is truncated");
        }
        Said::Other => {
            let _ = eprintln!(rt; "error: the input is not the expected response of CouchDB");
        }
        Said::Memory => return report_out_of_memory(rt),
    }
    3
}
