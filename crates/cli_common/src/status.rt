//! Reads the arguments of a program. If the program runs nothing because of its arguments, determines the exit status.
ghost use Rattle.std.specs.Prelude.{◌≡◌};
ghost use Rattle.std.specs.IoError.{error_kind};
ghost use Rattle.clap.specs.Words.{kind_of};
ghost use Rattle.cli_common.specs.Status.{argument_status, kind_status};

use clap::Error;
use clap::error::ErrorKind;
use script_engine::ScriptFault;
use std::env::Env;
use std::io::{Eprint, Print};
use std::{env, io};

/// The exit status for a usage error.
pub const BAD_COMMAND_LINE: u8 = 2;

/// Returns the command-line arguments. The first argument is the program's name.
///
/// # Errors
///
/// The error is `OutOfMemory` if an allocation fails. Any error except `OutOfMemory` means that an argument is not
/// valid Unicode.
pub fn words_of<H: AllocGlobal + Env>(rt: &H) -> io::Result<Vec<String>> {
    let words = env::args(rt)?.collect(rt.alloc())?;
    Ok(words)
}

/// Reports why the arguments cannot be read, and returns the exit status: 3 if an allocation failed, otherwise 2.
pub fn report_bad_arguments(rt: &impl Eprint, error: &io::Error) -> u8
    ensures { result ≡ argument_status (error_kind error.now) }
{
    match error.kind() {
        io::ErrorKind::OutOfMemory => report_out_of_memory(rt),
        _ => {
            let _ = eprintln!(rt; "error: {error}");
            BAD_COMMAND_LINE
        }
    }
}

/// Prints `clap`'s message, and returns the exit status. The exit status is 0 for help and version, 3 if an allocation
/// failed, and 2 for other errors.
pub fn report_arguments<H: Print + Eprint>(rt: &H, error: &Error) -> u8
    ensures { result ≡ kind_status (kind_of error.now) }
{
    if error.kind() == ErrorKind::OutOfMemory {
        return report_out_of_memory(rt);
    }
    let _ = error.print(rt);
    if error.use_stderr() {
        BAD_COMMAND_LINE
    } else {
        0
    }
}

/// Reports that an allocation failed before the program ran anything, and returns the exit status.
pub fn report_out_of_memory(rt: &impl Eprint) -> u8
    ensures { result ≡ 3 }
{
    let fault = ScriptFault::Memory;
    let _ = eprintln!(rt; "{fault}");
    3
}
