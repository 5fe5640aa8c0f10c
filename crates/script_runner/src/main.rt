//! Runs a script of commands from standard input with the default settings, and prints the results.
//!
//! The program has no options. The program uses the interpreter of `couch_replicate`, so both programs print the same
//! results. The program compiles faster than `couch_replicate`, because it does not use a library for command lines.
//! docs/PROFILE.md, "Command lines" and "Answers", defines a script.
#![tactic(auto)]

ghost use Rattle.std.specs.Prelude.{◌≡◌, ℕ, List, Some, IfOk};
ghost use Rattle.commands.specs.Streams.{Prints};
ghost use Rattle.script_runner.specs.Defaults.{default_program};

use commands::run_script;
use script_databases::Settings;
use script_engine::{Nobody, OverRead, OverWrite, Recorder, ScriptFault, ScriptRead};
use std::io;
use std::io::{Eprint, Input, Print, Printer, Write};
use std::process::ExitCode;
use std::sync::Wait;
use std::thread::Threads;

/// Runs the script on standard input with the default settings. Returns the script's result, the reader of standard
/// input, and the writer of standard output. The contract names the bytes that were read and written.
///
/// # Errors
///
/// `OutOfMemory`: the output buffer cannot be allocated. If the output buffer cannot be allocated, the call reads and
/// writes nothing.
fn run_standard<'a, H>(
    rt: &'a H,
) -> io::Result<
    (
        Result<bool, ScriptFault>,
        OverRead<H::Reader>,
        Recorder<Printer<'a, H>>,
    ),
>
where
    H: AllocGlobal + Input + Print + Threads + Wait + Sync,
    ensures { IfOk result (λ ran. (input : List ℕ) × (text : List ℕ)
        × (⟦<OverRead<H::Reader> as ScriptRead>⟧.taken ran.1 ≡ Some input)
        × (⟦<Recorder<Printer<'a, H>> as Write>⟧.contents ran.2 ≡ Some text)
        × Prints default_program input (⟦<OverRead<H::Reader> as ScriptRead>⟧.ended ran.1) text ran.0) }
{
    let mut writer = OverWrite::new(rt.alloc(), Recorder::new(io::writer(rt)))?;
    let mut reader = OverRead::new(rt.reader());
    let ended = run_script(rt, &mut reader, &mut writer, Nobody, &Settings::new());
    Ok((ended, reader, writer.into_inner()))
}

/// Runs the program. Returns the exit status, which is 0 on success, 1 if a line failed, and 3 if reading, writing or
/// an allocation failed.
fn run_program<H>(rt: &H) -> u8
where
    H: AllocGlobal + Input + Print + Eprint + Threads + Wait + Sync,
{
    let ended = match run_standard(rt) {
        Ok((ended, _reader, _writer)) => ended,
        Err(_) => Err(ScriptFault::Memory),
    };
    match ended {
        Ok(true) => 0,
        Ok(false) => 1,
        Err(fault) => {
            let _ = eprintln!(rt; "{fault}");
            3
        }
    }
}

fn main(rt: HostRuntime) -> ExitCode {
    ExitCode::from(run_program(&rt))
}
