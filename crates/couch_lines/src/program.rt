//! Runs the program with the given arguments and standard streams, and determines the exit status.
ghost use Rattle.std.specs.Prelude.{◌≡◌, ◌≤◌, ◌⊎◌, ℕ, List, Some, IfOk, map, string_bytes};
ghost use Rattle.std.specs.Io.KnownBytes.{Keeps};
ghost use Rattle.couch_lines.specs.Runs.{RunsStandard};
ghost use Rattle.couch_lines.specs.Status.{drawn_status, ended_status, status_of, undrawn, unflushed, unwritten};

use crate::options::NoTask;
use crate::run::{Ended, Run, run_words};
use crate::tasks::Named;
use cli_common::{
    BAD_COMMAND_LINE, report_arguments, report_bad_arguments, report_out_of_memory, words_of,
};
use diagrams::{Outcome, Tally};
use response_output::AnswerFault;
use response_parser::Refusal;
use script_engine::{OverRead, OverWrite, Recorder, ScriptFault, ScriptRead, ScriptWrite};
use std::env::Env;
use std::io::{Eprint, Input, Print, Printer, Write};
use std::{io, str};

/// Runs the program, and returns its exit status. The status is 0 on success, and 2 for a usage error. The status is 1
/// if the program skipped an object or a line. The status is also 1 if an allocation for a line of `trees` failed. The
/// status is 3 if the program rejects the input, or if reading or writing failed. Every failed allocation except an
/// allocation for a line of `trees` also gives status 3.
pub fn run_program<H: AllocGlobal + Env + Input + Print + Eprint>(rt: &H) -> u8
    ensures { result ≤ 3 }
{
    match words_of(rt) {
        Ok(words) => match run_standard(rt, words.as_slice()) {
            Ok((ended, _reader, _writer)) => tell(rt, &ended),
            Err(_) => report_out_of_memory(rt),
        },
        Err(error) => report_bad_arguments(rt, &error),
    }
}

/// Runs the program on standard input and output. Returns three values: the result of the run, the reader, and the
/// writer. The contract states which bytes were read and written. Output is buffered, and flushed at the end.
///
/// # Errors
///
/// `OutOfMemory`: the output buffer cannot be allocated. If the output buffer cannot be allocated, the call reads and
/// writes nothing.
fn run_standard<'a, H>(
    rt: &'a H,
    words: &[String],
) -> io::Result<(Ended, OverRead<H::Reader>, Recorder<Printer<'a, H>>)>
where
    H: AllocGlobal + Input + Print,
    ensures { IfOk result (λ ran. (input : List ℕ) × (text : List ℕ)
        × (⟦<OverRead<H::Reader> as ScriptRead>⟧.taken ran.1 ≡ Some input)
        × (⟦<Recorder<Printer<'a, H>> as Write>⟧.contents ran.2 ≡ Some text)
        × RunsStandard (map string_bytes words.now) input (⟦<OverRead<H::Reader> as ScriptRead>⟧.ended ran.1) text
        ran.0) }
{
    let mut writer = OverWrite::new(rt.alloc(), Recorder::new(io::writer(rt)))?;
    let mut reader = OverRead::new(rt.reader());
    let first = run_words(rt.alloc(), words, &mut reader, &mut writer);
    let ended = flushed(&mut writer, first);
    Ok((ended, reader, writer.into_inner()))
}

/// Flushes the output, and returns the result of the run. If flushing fails, an error replaces the success of the run.
fn flushed<W: ScriptWrite>(writer: &mut W, first: Ended) -> Ended
    ensures kept { Keeps (W.held writer.old) (W.held writer.new) }
    ensures flushed { (Keeps (W.held writer.new) (W.sent writer.new) × (result ≡ first)) ⊎ (result ≡ unflushed first) }
{
    match writer.flush() {
        Ok(()) => first,
        Err(_) => unflushed(first),
    }
}

/// Returns the result of a run whose output could not be flushed. If an earlier error ended the run, the call returns
/// the earlier error.
fn unflushed(ended: Ended) -> Ended
    ensures { result ≡ unflushed ended }
{
    match ended {
        Ended::Ran(run) => Ended::Ran(Run {
            ended: unwritten(run.ended),
            reading: run.reading,
            wording: run.wording,
        }),
        Ended::Drawn(ended) => Ended::Drawn(undrawn(ended)),
        Ended::NotRun(why) => Ended::NotRun(why),
    }
}

/// Returns the result of a drawing whose output could not be flushed. If an earlier error ended the run, the call
/// returns the earlier error.
fn undrawn(ended: Result<Outcome, ScriptFault>) -> Result<Outcome, ScriptFault>
    ensures { result ≡ undrawn ended }
{
    match ended {
        Ok(_) => Err(ScriptFault::Write),
        Err(fault) => Err(fault),
    }
}

/// Returns the result of a conversion whose output could not be flushed. If an earlier error ended the run, the call
/// returns the earlier error.
fn unwritten(ended: Result<u64, AnswerFault>) -> Result<u64, AnswerFault>
    ensures { result ≡ unwritten ended }
{
    match ended {
        Ok(_) => Err(AnswerFault::Device {
            fault: ScriptFault::Write,
        }),
        Err(fault) => Err(fault),
    }
}

/// If a run did not succeed, reports the reason. Returns the exit status.
fn tell<H: Print + Eprint>(rt: &H, ended: &Ended) -> u8
    ensures { result ≡ ended_status ended.now }
{
    match ended {
        Ended::NotRun(NoTask::Words(error)) => report_arguments(rt, error),
        Ended::NotRun(NoTask::Unknown) => {
            let _ = eprintln!(rt; "error: unknown task; see couch_lines --help");
            BAD_COMMAND_LINE
        }
        Ended::NotRun(NoTask::Wrong(named)) => {
            let usage = usage_of(*named);
            let _ = eprintln!(rt;
                "error: couch_lines reads standard input; usage: couch_lines {usage} < FILE"
            );
            BAD_COMMAND_LINE
        }
        Ended::NotRun(NoTask::Memory) => report_out_of_memory(rt),
        Ended::Ran(run) => tell_run(rt, run),
        Ended::Drawn(ended) => tell_drawn(rt, ended),
    }
}

/// Prints an error message if drawing stopped early, or if the input had lines that `couch_replicate` does not print.
/// Returns the exit status.
fn tell_drawn(rt: &impl Eprint, ended: &Result<Outcome, ScriptFault>) -> u8
    ensures { result ≡ drawn_status ended.now }
{
    match ended {
        Ok(drawn) => {
            if drawn.tally.unknown > 0 {
                tell_unknown(rt, drawn.tally);
            }
            let complete = drawn.clean && drawn.tally.unknown == 0;
            if complete { 0 } else { 1 }
        }
        Err(fault) => {
            let _ = eprintln!(rt; "{fault}");
            3
        }
    }
}

/// Reports how many input lines are not output of `couch_replicate`, and the number of the first such line.
fn tell_unknown(rt: &impl Eprint, tally: Tally) {
    let Tally { unknown, first, .. } = tally;
    let _ = eprintln!(rt;
        "skipped {unknown} lines that are not output of couch_replicate (the first: nonblank line {first})"
    );
}

/// Returns the usage line of a task.
fn usage_of(named: Named) -> &'static str {
    match named {
        Named::Load => "load DB [--whole]",
        Named::Ids => "ids [N]",
        Named::Diff => "diff [N]",
        Named::Leaves => "leaves DB",
        Named::Bulk => "bulk [N] [--whole]",
        Named::Trees => "trees [DB] [--svg]",
    }
}

/// Reports the number of skipped objects, or why the conversion stopped early, and returns the exit status.
fn tell_run(rt: &impl Eprint, run: &Run) -> u8
    ensures { result ≡ status_of run.now.ended }
{
    match &run.ended {
        Ok(0) => 0,
        Ok(passed) => {
            let _ = eprintln!(rt; "skipped {passed} entries that contain no document");
            1
        }
        Err(AnswerFault::Device { fault }) => {
            let _ = eprintln!(rt; "{fault}");
            3
        }
        Err(AnswerFault::Refused { why, at }) => tell_refused(rt, run, *why, *at),
        Err(AnswerFault::LateMember { at }) => tell_late(rt, *at),
    }
}

/// Reports why the input is not a response, and returns the exit status.
fn tell_refused(rt: &impl Eprint, run: &Run, why: Refusal, at: u64) -> u8
    ensures { result ≡ 3 }
{
    let id = text_of(run.wording.id());
    let hint = hint_of(why);
    if why == Refusal::CouchError {
        let error = unquoted(run.reading.error());
        let reason = unquoted(run.reading.text());
        let _ = eprintln!(rt; "CouchDB says {error}: {reason}");
    } else if !hint.is_empty() {
        let _ = eprintln!(rt;
            "error: the input is not a response of CouchDB, at byte {at}: {hint} ({why})"
        );
    } else if id.is_empty() {
        let _ = eprintln!(rt; "error: invalid input at byte {at} ({why})");
    } else {
        let _ = eprintln!(rt; "error: invalid input at byte {at}, after document {id} ({why})");
    }
    3
}

/// Reports that a member `_id`, `_rev`, `_revisions` or `_deleted` of a long document follows an attachment. Returns
/// the exit status.
fn tell_late(rt: &impl Eprint, at: u64) -> u8
    ensures { result ≡ 3 }
{
    let _ = eprintln!(rt;
        "error: byte {at} ends a long document in which _id, _rev, _revisions or _deleted follows an attachment (LateMember)"
    );
    3
}

/// Returns a hint on what the rejected input is, and what the user can do.
fn hint_of(why: Refusal) -> &'static str {
    match why {
        Refusal::Gzip => "it is gzip; use curl --compressed",
        Refusal::Html => "it is HTML",
        Refusal::Headers => "it begins with HTTP headers; use curl without -i",
        Refusal::Multipart => "it is multipart; request it with Accept: application/json",
        Refusal::ByteOrderMark => "it begins with a byte order mark",
        _ => "",
    }
}

/// Returns the given bytes as a string, or an empty string if the bytes are not UTF-8.
fn text_of(bytes: &[u8]) -> &str {
    match str::from_utf8(bytes) {
        Ok(text) => text,
        Err(_) => "",
    }
}

/// Returns the text of a JSON string without the quotation marks and without surrounding white space.
fn unquoted(bytes: &[u8]) -> &str {
    let text = text_of(bytes).trim();
    let text = match text.strip_prefix('"') {
        Some(rest) => rest,
        None => text,
    };
    match text.strip_suffix('"') {
        Some(rest) => rest,
        None => text,
    }
}
