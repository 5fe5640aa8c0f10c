//! Parses the command line (docs/PROFILE.md, "Options of `couch_relay`").
ghost use Rattle.std.specs.Prelude.{◌≡◌, ℕ, [], IfOk, IfErr, map, string_bytes, unwrap_or, false};
ghost use Rattle.clap.specs.Words.{app_of, found_of, first_value, one_text, rule_of};
ghost use Rattle.cli_common.specs.Words.{IsFound};
ghost use Rattle.couch_relay.specs.declared.options.NoOptions.TheVariants.{NoNumber, Memory};
ghost use Rattle.couch_relay.specs.declared.options.Options.{Options};
ghost use Rattle.couch_relay.specs.Options.{AreGiven, IsValue, Refuses, argument, command_line, number_option, text_option, with_arguments, with_numbers, with_options};

use clap::{Arg, ArgAction, ArgMatches, Command, Error, value_parser};
use cli_common::{find, flag, program};
use std::alloc::{AllocError, Global};

/// The description of the program in the output of `--help`.
const ABOUT: &str =
    "Decides what is asked of two CouchDB servers in a replication, and when a checkpoint may be recorded.";

/// The description of the protocol in the output of `--help`.
const PROTOCOL: &str =
    "The program has no network. It writes a request to standard output, reads the response from
standard input, and repeats this until it writes `done`. Another program carries them.

A request is two lines: `WHO METHOD PATH`, and a JSON body or an empty line.
A response is a line `STATUS BYTES WHO DATE`, followed by BYTES bytes. STATUS is an HTTP
status, or 0 if there is no complete response. WHO is `source` or `target`. DATE may be empty.

WHO of a request is `source` or `target`, or one of
  carry   Get these documents from the source and store them on the target with `_bulk_docs`.
          The response is the target's.
  tell    Print the second line. METHOD is `refused`, `again` or `progress`.
  done    The run is over. METHOD is the exit status; the second line has the counts.
          There is no response.

Exit status: 0 success; 1 if the target refused a document; 3 usage error or failure.";

/// The arguments and options of a command line.
#[derive(Drop)]
pub(crate) struct Options<'a> {
    pub(crate) source: &'a str,
    pub(crate) target: &'a str,
    pub(crate) session_id: &'a str,
    pub(crate) batch: u64,
    pub(crate) carry: u64,
    pub(crate) every: u64,
    pub(crate) continuous: bool,
    pub(crate) progress: bool,
    pub(crate) filter: &'a str,
    pub(crate) query: &'a str,
    pub(crate) salt: &'a str,
    /// Whether the program reads a selection of documents from the first response in its input.
    pub(crate) choice: bool,
}

/// The reason why the options cannot be read from the command line.
#[derive(Drop)]
pub(crate) enum NoOptions {
    /// `clap`'s error. A request for help is also an error of `clap`.
    Words(Error),
    /// The value of a numeric option is not a number. The earlier check by `clap` should prevent this error.
    NoNumber,
    /// An allocation failed.
    Memory,
}

impl From<AllocError> for NoOptions {
    ghost from_gives = { λ _ e. e ≡ Memory };

    fn from(_refused: AllocError) -> NoOptions {
        NoOptions::Memory
    }
}

/// Defines a required positional argument.
fn required<'a>(alloc: Global, name: &'a str, help: &'a str) -> Arg<'a>
    ensures rule { rule_of result ≡ argument name.entry.now }
    ensures local { result.global ≡ false }
{
    Arg::new(alloc, name)
        .required(true)
        .action(ArgAction::Set)
        .help(help)
}

/// Defines an option with an integer value from 0 to 2^64 - 1.
fn number<'a>(alloc: Global, name: &'a str, help: &'a str) -> Arg<'a>
    ensures rule { rule_of result ≡ number_option name.entry.now }
    ensures local { result.global ≡ false }
{
    Arg::new(alloc, name)
        .long(name)
        .value_name("N")
        .value_parser(value_parser!(u64))
        .action(ArgAction::Set)
        .help(help)
}

/// Defines an option with a string value.
fn text<'a>(alloc: Global, name: &'a str, value: &'a str, help: &'a str) -> Arg<'a>
    ensures rule { rule_of result ≡ text_option name.entry.now }
    ensures local { result.global ≡ false }
{
    Arg::new(alloc, name)
        .long(name)
        .value_name(value)
        .action(ArgAction::Set)
        .help(help)
}

/// Adds the positional arguments to a command line.
fn with_arguments<'a>(alloc: Global, command: Command<'a>) -> Result<Command<'a>, AllocError>
    ensures { IfOk result (λ c. app_of c ≡ with_arguments (app_of command.entry)) }
{
    command
        .arg(required(
            alloc,
            "SOURCE",
            "URL of the source database, without credentials and without a final slash",
        ))?
        .arg(required(
            alloc,
            "TARGET",
            "URL of the target database, without credentials and without a final slash",
        ))?
        .arg(required(
            alloc,
            "SESSION",
            "Id of this session: 32 random hexadecimal digits",
        ))
}

/// Adds the numeric options to a command line.
fn with_numbers<'a>(alloc: Global, command: Command<'a>) -> Result<Command<'a>, AllocError>
    ensures { IfOk result (λ c. app_of c ≡ with_numbers (app_of command.entry)) }
{
    command
        .arg(number(
            alloc,
            "batch",
            "Maximum number of changes per page [default: 500]",
        ))?
        .arg(number(
            alloc,
            "carry",
            "Maximum number of documents per carry [default: 500]",
        ))?
        .arg(number(
            alloc,
            "every",
            "Number of pages between two checkpoints [default: 10]",
        ))
}

/// Adds the options for the feed, the filter and the selection to a command line.
fn with_options<'a>(alloc: Global, command: Command<'a>) -> Result<Command<'a>, AllocError>
    ensures { IfOk result (λ c. app_of c ≡ with_options (app_of command.entry)) }
{
    let command = command
        .arg(flag(
            alloc,
            "continuous",
            "Wait for changes at the end of the feed",
        ))?
        .arg(flag(alloc, "progress", "Report the counts after each page"))?
        .arg(text(
            alloc,
            "filter",
            "NAME",
            "Request only the changes that pass this filter",
        ))?
        .arg(text(
            alloc,
            "query",
            "WORDS",
            "Append these parameters to requests for changes",
        ))?
        .arg(text(
            alloc,
            "salt",
            "TEXT",
            "Text that makes the id of the replication logs distinct",
        ))?
        .arg(flag(
            alloc,
            "choice",
            "Read a selection of documents as the first response",
        ))?;
    Ok(command)
}

/// Defines the program's command line.
fn command<'a>(alloc: Global) -> Result<Command<'a>, AllocError>
    ensures { IfOk result (λ c. app_of c ≡ command_line) }
{
    let command = program(alloc, "couch_relay", ABOUT, PROTOCOL);
    let command = with_arguments(alloc, command)?;
    let command = with_numbers(alloc, command)?;
    with_options(alloc, command)
}

/// Parses the arguments. The first argument is the program's name.
///
/// # Errors
///
/// The call returns `Words` if `clap` rejects the arguments or the arguments request help, and `Memory` if an
/// allocation fails.
pub(crate) fn matches_of<'a>(
    alloc: Global,
    words: &'a [String],
) -> Result<ArgMatches<'a>, NoOptions>
    ensures ok { IfOk result (IsFound command_line (map string_bytes words.entry.now)) }
    ensures err { IfErr result (Refuses (map string_bytes words.entry.now)) }
{
    let command = command(alloc)?;
    match find(command, words) {
        Ok(matches) => Ok(matches),
        Err(error) => Err(NoOptions::Words(error)),
    }
}

/// Returns the value of an argument or option, or an empty string if the argument or option is absent.
fn text_of<'m, 'a>(matches: &'m ArgMatches<'a>, name: &str) -> &'m str
    ensures { result.now ≡ unwrap_or (first_value (found_of matches.now) name.now) [] }
{
    match matches.get_str(name) {
        Some(text) => text,
        None => "",
    }
}

/// Returns the value of a numeric option, or the default if the option is absent.
///
/// # Errors
///
/// `NoNumber` if the value is not a number.
fn number_of(matches: &ArgMatches<'_>, name: &str, default: u64) -> Result<u64, NoOptions>
    ensures ok { IfOk result (λ n. IsValue (one_text (found_of matches.now) name.now) default n) }
    ensures err { IfErr result
        (λ why. (why ≡ NoNumber) × ((n : ℕ) → IsValue (one_text (found_of matches.now) name.now) default n → ⊥)) }
{
    match matches.try_get_one::<u64>(name) {
        Ok(Some(number)) => Ok(number),
        Ok(None) => Ok(default),
        Err(_) => Err(NoOptions::NoNumber),
    }
}

/// Returns the options that the command line gives, with default values for absent options.
///
/// # Errors
///
/// `NoNumber` if the value of a numeric option is not a number.
pub(crate) fn options_of<'m, 'a>(matches: &'m ArgMatches<'a>) -> Result<Options<'m>, NoOptions>
    ensures ok { IfOk result (AreGiven (first_value (found_of matches.now)) (one_text (found_of matches.now))) }
    ensures err { IfErr result (λ why. (why ≡ NoNumber)
        × ((o : Options) → AreGiven (first_value (found_of matches.now)) (one_text (found_of matches.now)) o → ⊥)) }
{
    let batch = match number_of(matches, "batch", 500) {
        Ok(batch) => batch,
        Err(why) => return Err(why),
    };
    let carry = match number_of(matches, "carry", 500) {
        Ok(carry) => carry,
        Err(why) => return Err(why),
    };
    let every = match number_of(matches, "every", 10) {
        Ok(every) => every,
        Err(why) => return Err(why),
    };
    Ok(Options {
        source: text_of(matches, "SOURCE"),
        target: text_of(matches, "TARGET"),
        session_id: text_of(matches, "SESSION"),
        batch,
        carry,
        every,
        continuous: matches.get_flag("continuous"),
        progress: matches.get_flag("progress"),
        filter: text_of(matches, "filter"),
        query: text_of(matches, "query"),
        salt: text_of(matches, "salt"),
        choice: matches.get_flag("choice"),
    })
}
