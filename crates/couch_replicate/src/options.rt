//! Defines the options, and parses the command line (docs/PROFILE.md, "Options").
ghost use Rattle.std.specs.Prelude.{◌≡◌, ℕ, IfOk, IfErr, map, string_bytes, false};
ghost use Rattle.clap.specs.Words.{app_of, found_of, first_value, one_text, rule_of};
ghost use Rattle.couch_replicate.specs.declared.options.NoSettings.TheVariants.{NoNumber, Memory};
ghost use Rattle.couch_replicate.specs.Options.{AreOptions, AreSettings, IsNumber, Refuses, Says, deny_option, number_option, options, SetNothing};

use clap::{Arg, ArgAction, ArgMatches, Command, Error, value_parser};
use cli_common::{find, flag, hidden_word, program};
use script_databases::Settings;
use std::alloc::{AllocError, Global};

/// The description of the program.
const ABOUT: &str = "Runs JSON commands on in-memory document databases, and prints the results.";

/// The description of scripts for `--help`.
const SCRIPT_HELP: &str =
    "Each line of standard input is a JSON object with one command; its result goes to standard output.
Database and backup names have 1 to 32 letters, digits, `-` or `_`.

  {\"do\":\"load\",\"db\":\"a\"}
      Create the database `a`, unless it exists. \"uuid\":\"11111111-1111-4111-8111-111111111111\" sets the
      UUID of a new database.
  {\"do\":\"load\",\"db\":\"a\",\"doc\":{\"_id\":\"d\",\"_rev\":\"2-b\",\"_revisions\":{\"start\":2,\"ids\":[\"b\",\"r\"]},\"n\":1}}
      Store a revision of document `d` with the given history, newest first. With \"_deleted\":true the
      revision is a deletion.
  {\"do\":\"edit\",\"db\":\"a\",\"id\":\"d\",\"parent\":\"2-b\",\"body\":{\"n\":2}}
      Add a revision as a child of the leaf `2-b`. Omit \"parent\" to create a document, or to recreate
      a deleted one. Use \"deleted\":true to delete.
  {\"do\":\"show\",\"db\":\"a\",\"id\":\"d\"}
      Print the winning revision and every leaf, with its history.
  {\"do\":\"doc\",\"db\":\"a\",\"id\":\"d\",\"rev\":\"2-b\"}
      Print a revision of a document; without \"rev\", the winning one.
  {\"do\":\"changes\",\"db\":\"a\",\"since\":1}
      List the documents changed after a sequence (default 0), with their leaves.
  {\"do\":\"replicate\",\"source\":\"a\",\"target\":\"b\"}
      Replicate from `a` to `b`, starting at the last common checkpoint. Optional members: \"session\"
      (UUID), \"workers\", \"batch\", \"at\", \"stop_after\" (number of windows of `batch` changes), \"alone\" (true: one thread),
      \"progress\" (true: also print counts), \"doc_ids\" (replicate only these documents; each list has
      its own checkpoint).
  {\"do\":\"log\",\"source\":\"a\",\"target\":\"b\",\"side\":\"source\"}
      Print the replication log on one side, `source` or `target`. Optional: \"doc_ids\".
  {\"do\":\"audit\",\"source\":\"a\",\"target\":\"b\"}
      Check that `b` has, or has refused, everything that the common checkpoint claims, and print
      `clean`. Optional: \"doc_ids\".
  {\"do\":\"backup\",\"db\":\"a\",\"name\":\"k\"}
      Save a copy of `a` as `k`. Fails if `a` has been a replication target.
  {\"do\":\"restore\",\"db\":\"a\",\"name\":\"k\"}
      Replace `a` and its logs by the copy `k`, which is kept.
  {\"do\":\"compare\",\"source\":\"a\",\"target\":\"b\"}
      For each document of `a`, list missing and differing leaves and contradicting revisions in `b`,
      independent of checkpoints. Optional: \"doc_ids\".
  {\"do\":\"conflicts\",\"db\":\"a\"}
      List the documents with more than one live leaf.
  {\"do\":\"docs\",\"db\":\"a\",\"since\":1}
      Print every leaf of the documents changed after a sequence, as a value for the member `doc` of
      `load`. Optional: \"doc_ids\".
  {\"do\":\"info\",\"db\":\"a\"}
      Print the numbers of documents, leaves, conflicts, revisions and sessions.
  {\"do\":\"ledger\",\"target\":\"b\",\"session\":\"11111111111141118111111111111111\"}
      List the documents that `b` refused in a session, with the reasons.
  {\"do\":\"sync\",\"a\":\"a\",\"b\":\"b\"}
      Replicate from `a` to `b`, then from `b` to `a`. Optional: \"there\" and \"back\" (session UUIDs).

Blank lines are ignored. A command that fails prints `refused LINE NAME` and changes nothing, except
that a failed replication keeps what it has already copied. docs/PROFILE.md, \"Names of refusals\",
explains each NAME; so does --explain.

The same seed gives the same generated ids. With several workers and several windows, the sequences of
a target may differ between runs, and with them the order in which `changes`, `docs`, `conflicts`,
`compare` and `ledger` print documents.

Exit status: 0 if every command succeeded, 1 if one failed, 2 for a usage error, 3 if the script
stopped early, because reading, writing or an allocation failed.";

/// The options of a command line.
#[derive(Drop)]
pub struct Options {
    /// The settings for the script.
    pub settings: Settings,
    /// Whether errors are explained on standard error.
    pub explain: bool,
    /// Whether progress is shown on standard error.
    pub progress: bool,
}

/// The reason why a command line gives no settings.
#[derive(Drop)]
pub enum NoSettings {
    /// An error of `clap`. A request for help or for the version is also an error of `clap`.
    Words(Error),
    /// The value of an option is not a number, although `clap` has checked that the value is a number.
    NoNumber,
    /// The command line has a positional argument.
    File,
    /// An allocation failed.
    Memory,
}

impl From<AllocError> for NoSettings {
    ghost from_gives = { λ _ e. e ≡ Memory };

    fn from(_refused: AllocError) -> NoSettings {
        NoSettings::Memory
    }
}

/// Parses the arguments. The first argument is the program's name.
pub fn read_words<'a>(alloc: Global, words: &'a [String]) -> Result<Options, NoSettings>
    ensures ok { IfOk result (λ o. Says (map string_bytes words.entry.now) o) }
    ensures err { IfErr result (λ why. Refuses (map string_bytes words.entry.now) why) }
{
    let command = command(alloc)?;
    match find(command, words) {
        Ok(matches) => options_of(alloc, &matches),
        Err(error) => Err(NoSettings::Words(error)),
    }
}

/// Reads the options.
fn options_of(alloc: Global, matches: &ArgMatches<'_>) -> Result<Options, NoSettings>
    ensures ok { IfOk result
        (λ o. AreOptions (first_value (found_of matches.now)) (one_text (found_of matches.now)) o) }
    ensures err { IfErr result (SetNothing (first_value (found_of matches.now)) (one_text (found_of matches.now))) }
{
    match settings_of(alloc, matches) {
        Ok(settings) => Ok(Options {
            settings,
            explain: matches.get_flag("explain"),
            progress: matches.get_flag("progress"),
        }),
        Err(why) => Err(why),
    }
}

/// Reads the settings.
fn settings_of(alloc: Global, matches: &ArgMatches<'_>) -> Result<Settings, NoSettings>
    ensures ok { IfOk result
        (λ s. AreSettings (first_value (found_of matches.now)) (one_text (found_of matches.now)) s) }
    ensures err { IfErr result (SetNothing (first_value (found_of matches.now)) (one_text (found_of matches.now))) }
{
    if matches.get_str("file").is_some() {
        return Err(NoSettings::File);
    }
    let deny = match matches.get_str("deny") {
        Some(prefix) => Some(String::from_str(alloc, prefix)?),
        None => None,
    };
    let seed = match number_of(matches, "seed", 0) {
        Ok(seed) => seed,
        Err(why) => return Err(why),
    };
    let at = match number_of(matches, "at", 0) {
        Ok(at) => at,
        Err(why) => return Err(why),
    };
    let workers = match number_of(matches, "workers", 4) {
        Ok(workers) => workers,
        Err(why) => return Err(why),
    };
    let batch = match number_of(matches, "batch", 500) {
        Ok(batch) => batch,
        Err(why) => return Err(why),
    };
    let quiet = matches.get_flag("quiet");
    Ok(Settings {
        deny,
        seed,
        at,
        workers,
        batch,
        quiet,
    })
}

/// Reads the value of a numeric option, or the option's default if the option is absent.
///
/// # Errors
///
/// `NoNumber` if the value is not a number.
fn number_of(matches: &ArgMatches<'_>, name: &str, default: u64) -> Result<u64, NoSettings>
    ensures ok { IfOk result (λ n. IsNumber (one_text (found_of matches.now) name.now) default n) }
    ensures err { IfErr result
        (λ why. (why ≡ NoNumber) × ((n : ℕ) → IsNumber (one_text (found_of matches.now) name.now) default n → ⊥)) }
{
    match matches.try_get_one::<u64>(name) {
        Ok(Some(number)) => Ok(number),
        Ok(None) => Ok(default),
        Err(_) => Err(NoSettings::NoNumber),
    }
}

/// Defines the command line: eight options, each allowed at most once, and a positional argument.
fn command<'a>(alloc: Global) -> Result<Command<'a>, AllocError>
    ensures { IfOk result (λ c. app_of c ≡ options) }
{
    let command = program(alloc, "couch_replicate", ABOUT, SCRIPT_HELP)
        .arg(deny(alloc))?
        .arg(number(
            alloc,
            "seed",
            "N",
            "Seed for generated ids; the order of documents may still differ between runs [default: 0]",
        ))?
        .arg(number(
            alloc,
            "at",
            "SECONDS",
            "Timestamp recorded for replications, in Unix time [default: 0]",
        ))?
        .arg(number(
            alloc,
            "workers",
            "N",
            "Number of workers per replication, 1 to 64 [default: 4]",
        ))?
        .arg(number(
            alloc,
            "batch",
            "N",
            "Maximum number of changes per window, 1 to 10000 [default: 500]",
        ))?
        .arg(flag(
            alloc,
            "quiet",
            "Print nothing for successful loads and edits",
        ))?
        .arg(flag(
            alloc,
            "explain",
            "Explain the first 20 errors on standard error, and count all errors by name",
        ))?
        .arg(flag(
            alloc,
            "progress",
            "Show progress on standard error, if it is a terminal",
        ))?
        .arg(hidden_word(alloc, "file"))?;
    Ok(command)
}

/// Defines the option `--deny`.
fn deny<'a>(alloc: Global) -> Arg<'a>
    ensures rule { rule_of result ≡ deny_option }
    ensures local { result.global ≡ false }
{
    Arg::new(alloc, "deny")
        .long("deny")
        .value_name("PREFIX")
        .action(ArgAction::Set)
        .help("Refuse replicated documents whose id starts with PREFIX")
}

/// Defines an option with an integer value from 0 to 2^64 - 1.
fn number<'a>(alloc: Global, name: &'a str, value: &'a str, help: &'a str) -> Arg<'a>
    ensures rule { rule_of result ≡ number_option name.entry.now }
    ensures local { result.global ≡ false }
{
    Arg::new(alloc, name)
        .long(name)
        .value_name(value)
        .value_parser(value_parser!(u64))
        .action(ArgAction::Set)
        .help(help)
}
