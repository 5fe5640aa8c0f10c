//! Runs the program with the given arguments and standard streams, and determines the exit status.
ghost use Rattle.std.specs.Prelude.{◌≡◌, ◌≤◌, ℕ, List, Some, IfOk, map, string_bytes};
ghost use Rattle.couch_replicate.specs.RunWords.{RunsStandard};
ghost use Rattle.couch_replicate.specs.Status.{ended_status, status_of};

use crate::options::NoSettings;
use crate::run::{Ended, run_words};
use cli_common::{
    BAD_COMMAND_LINE, report_arguments, report_bad_arguments, report_out_of_memory, words_of,
};
use script_engine::{OverRead, OverWrite, Recorder, ScriptFault, ScriptRead};
use std::env::Env;
use std::io;
use std::io::{Eprint, Input, Print, Printer, Write};
use std::rt::Clock;
use std::sync::Wait;
use std::thread::Threads;

/// Runs the program. Returns the exit status, which is 0 on success, 1 if a line failed, 2 for a usage error, and 3 if
/// reading, writing or an allocation failed.
///
/// The program shows progress only if the option `--progress` is given and standard error is a terminal (`is_watched`).
pub fn run_program<H>(rt: &H, is_watched: bool) -> u8
where
    H: AllocGlobal + Env + Input + Print + Eprint + Clock + Threads + Wait + Sync,
    ensures { result ≤ 3 }
{
    match words_of(rt) {
        Ok(words) => match run_standard(rt, words.as_slice(), is_watched) {
            Ok((ended, _reader, _writer)) => tell(rt, &ended),
            Err(_) => report_out_of_memory(rt),
        },
        Err(error) => report_bad_arguments(rt, &error),
    }
}

/// Runs the program on standard input and output. Returns three values: the result of the run, the reader, and the
/// writer. The contract says which bytes the call read and wrote.
///
/// # Errors
///
/// `OutOfMemory`: the output buffer cannot be allocated. If the output buffer cannot be allocated, the call reads and
/// writes nothing.
fn run_standard<'a, H>(
    rt: &'a H,
    words: &[String],
    is_watched: bool,
) -> io::Result<(Ended, OverRead<H::Reader>, Recorder<Printer<'a, H>>)>
where
    H: AllocGlobal + Input + Print + Eprint + Clock + Threads + Wait + Sync,
    ensures { IfOk result (λ ran. (input : List ℕ) × (text : List ℕ)
        × (⟦<OverRead<H::Reader> as ScriptRead>⟧.taken ran.1 ≡ Some input)
        × (⟦<Recorder<Printer<'a, H>> as Write>⟧.contents ran.2 ≡ Some text)
        × RunsStandard (map string_bytes words.now) input (⟦<OverRead<H::Reader> as ScriptRead>⟧.ended ran.1) text
        ran.0) }
{
    let mut writer = OverWrite::new(rt.alloc(), Recorder::new(io::writer(rt)))?;
    let mut reader = OverRead::new(rt.reader());
    let ended = run_words(rt, words, is_watched, &mut reader, &mut writer);
    Ok((ended, reader, writer.into_inner()))
}

/// Reports the error of a run that failed, and returns the exit status.
fn tell<H: Print + Eprint>(rt: &H, ended: &Ended) -> u8
    ensures { result ≡ ended_status ended.now }
{
    match ended {
        Ended::NotRun(NoSettings::Words(error)) => report_arguments(rt, error),
        Ended::NotRun(NoSettings::NoNumber) => BAD_COMMAND_LINE,
        Ended::NotRun(NoSettings::File) => {
            let _ = eprintln!(rt;
                "error: couch_replicate reads standard input; use: couch_replicate [OPTIONS] < FILE"
            );
            BAD_COMMAND_LINE
        }
        Ended::NotRun(NoSettings::Memory) => report_out_of_memory(rt),
        Ended::Ran(ended) => tell_fault(rt, ended),
    }
}

/// Reports an error of a script, and returns the exit status.
fn tell_fault(rt: &impl Eprint, ended: &Result<bool, ScriptFault>) -> u8
    ensures { result ≡ status_of ended.now }
{
    if let Err(fault) = ended {
        let _ = eprintln!(rt; "{fault}");
    }
    status_of(ended)
}

/// Returns the exit status of a script.
fn status_of(ended: &Result<bool, ScriptFault>) -> u8
    ensures { result ≡ status_of ended.now }
{
    match ended {
        Ok(true) => 0,
        Ok(false) => 1,
        Err(_) => 3,
    }
}
