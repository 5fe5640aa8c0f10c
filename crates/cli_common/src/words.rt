//! Defines the parts of a command line, and parses the arguments.
ghost use Rattle.std.specs.Prelude.{◌≡◌, IfOk, IfErr, map, string_bytes, true, false};
ghost use Rattle.clap.specs.Words.{HasKind, app_of, fault_of, is_simple_and_free, rule_of};
ghost use Rattle.cli_common.specs.Words.{IsFound, flag_option, hidden_option, program_app};

use clap::{Arg, ArgAction, ArgMatches, Command, Error};
use std::alloc::Global;

/// Defines the command line of a program without arguments. The parameters are the program's name, its description, and
/// the text that follows the help.
pub fn program<'a>(alloc: Global, name: &'a str, about: &'a str, help: &'a str) -> Command<'a>
    ensures { app_of result ≡ program_app name.entry.now }
{
    Command::new(alloc, name)
        .version("0.1.0")
        .about(about)
        .after_help(help)
}

/// Defines an option without a value.
pub fn flag<'a>(alloc: Global, name: &'a str, help: &'a str) -> Arg<'a>
    ensures rule { rule_of result ≡ flag_option name.entry.now }
    ensures local { result.global ≡ false }
{
    Arg::new(alloc, name)
        .long(name)
        .action(ArgAction::SetTrue)
        .help(help)
}

/// Defines a positional argument that does not appear in the help. Because of the hidden argument, the program itself,
/// and not `clap`, prints the error about an argument such as a file name.
pub fn hidden_word<'a>(alloc: Global, name: &'a str) -> Arg<'a>
    ensures rule { rule_of result ≡ hidden_option name.entry.now }
    ensures local { result.global ≡ false }
{
    Arg::new(alloc, name).hide(true).action(ArgAction::Set)
}

/// Parses the command line.
///
/// # Errors
///
/// The call returns `clap`'s error. `clap` also reports a request for help or for the version, and a failed allocation,
/// as errors.
pub fn find<'a>(command: Command<'a>, words: &'a [String]) -> Result<ArgMatches<'a>, Error>
    requires free { is_simple_and_free (app_of command) ≡ true }
    ensures ok { IfOk result (IsFound (app_of command.entry) (map string_bytes words.entry.now)) }
    ensures err { IfErr result (HasKind (fault_of (app_of command.entry) (map string_bytes words.entry.now))) }
{
    match command.try_get_matches_from(words) {
        Ok(matches) => Ok(matches),
        Err(error) => Err(error),
    }
}
