//! Runs `couch_relay` with the program's arguments, standard input and standard output, and determines the exit status.
ghost use Rattle.std.specs.Prelude.{◌≡◌, ℕ, List, Some, IfOk, if◌then◌else◌, ◌==◌, map, string_bytes};
ghost use Rattle.couch_relay.specs.Runs.{RunsWords};
ghost use Rattle.couch_relay.specs.Status.{ended_status, exit_status, usage_status};

use crate::options::NoOptions;
use crate::run::{Ended, run_words};
use cli_common::{report_arguments, report_bad_arguments, report_out_of_memory, words_of};
use script_engine::{OverRead, OverWrite, Recorder, ScriptFault, ScriptRead};
use std::env::Env;
use std::io;
use std::io::{Eprint, Input, Print, Printer, Write};

/// Runs the program, and returns its exit status.
pub(crate) fn run_program<H: AllocGlobal + Env + Input + Print + Eprint>(rt: &H) -> u8 {
    match words_of(rt) {
        Ok(words) => match run_standard(rt, words.as_slice()) {
            Ok((ended, _reader, _writer)) => report_end(rt, &ended),
            Err(_) => report_out_of_memory(rt),
        },
        Err(error) => usage_status(report_bad_arguments(rt, &error)),
    }
}

/// Returns the exit status if the command line starts no run. Maps the status 0 to 0, and any other status to 3.
fn usage_status(status: u8) -> u8
    ensures { result ≡ usage_status status }
{
    if status == 0 { 0 } else { 3 }
}

/// Runs the program on standard input and standard output. Returns three values: the result of the run, the reader, and
/// the writer. The contract says which bytes the call read and wrote.
///
/// # Errors
///
/// Returns `OutOfMemory` if the output buffer cannot be allocated. If the output buffer cannot be allocated, the call
/// reads and writes nothing.
fn run_standard<'a, H>(
    rt: &'a H,
    words: &[String],
) -> io::Result<(Ended, OverRead<H::Reader>, Recorder<Printer<'a, H>>)>
where
    H: AllocGlobal + Input + Print,
    ensures { IfOk result (λ ran. (input : List ℕ) × (text : List ℕ)
        × (⟦<OverRead<H::Reader> as ScriptRead>⟧.taken ran.1 ≡ Some input)
        × (⟦<Recorder<Printer<'a, H>> as Write>⟧.contents ran.2 ≡ Some text)
        × RunsWords (map string_bytes words.now) (⟦<OverRead<H::Reader> as ScriptRead>⟧.ended ran.1) input text
        ran.0) }
{
    let mut writer = OverWrite::new(rt.alloc(), Recorder::new(io::writer(rt)))?;
    let mut reader = OverRead::new(rt.reader());
    let ended = run_words(rt.alloc(), words, &mut reader, &mut writer);
    Ok((ended, reader, writer.into_inner()))
}

/// If a run did not begin, or if a fault stopped the run, reports the reason. Returns the exit status.
fn report_end<H: Print + Eprint>(rt: &H, ended: &Ended) -> u8
    ensures { result ≡ ended_status ended.now }
{
    match ended {
        Ended::Ran(ran) => report_run(rt, ran),
        Ended::NotRun(NoOptions::Words(error)) => usage_status(report_arguments(rt, error)),
        Ended::NotRun(NoOptions::NoNumber) => {
            let _ = eprintln!(rt;
                "error: the value of an option must be a number; see couch_relay --help"
            );
            3
        }
        Ended::NotRun(NoOptions::Memory) => report_out_of_memory(rt),
    }
}

/// If a fault stopped a run, reports the fault on standard error. Returns the exit status.
fn report_run(rt: &impl Eprint, ended: &Result<u8, ScriptFault>) -> u8
    ensures { result ≡ exit_status ended.now }
{
    match ended {
        Ok(status) => *status,
        Err(fault) => {
            let _ = eprintln!(rt; "error: {fault}");
            3
        }
    }
}
