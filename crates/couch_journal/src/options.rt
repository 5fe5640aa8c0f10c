//! Parses the program's command line.
ghost use Rattle.std.specs.Prelude.{◌≡◌, IfOk, IfErr, map, string_bytes, false};
ghost use Rattle.clap.specs.Words.{app_of, first_value, found_of, one_text, rule_of};
ghost use Rattle.cli_common.specs.Words.{IsFound};
ghost use Rattle.couch_journal.specs.declared.options.NoTask.TheVariants.{Memory};
ghost use Rattle.couch_journal.specs.Options.{AreGiven, Refuses, command_line, task_word, text_option, with_arguments, with_options};

use clap::{Arg, ArgAction, ArgMatches, Command, Error};
use cli_common::{find, flag, hidden_word, program};
use std::alloc::{AllocError, Global};

/// The description of the program in the output of `--help`.
const ABOUT: &str =
    "Reads and checks journals, and reads the responses of CouchDB that the jobs need.";

/// The description of the tasks in the output of `--help`.
const TASKS_HELP: &str = "Reads standard input and writes standard output.

  couch_journal page [--several]
      Print a state line for each row of a response of _changes?style=all_docs, with --several
      for each row with two or more leaves. The last line has the number of rows, the last
      sequence, and the number of documents after the page.
  couch_journal ask | diff
      Print the body of a _bulk_get or a _revs_diff request for the leaves of a list.
  couch_journal lacking
      Read a list, an empty line and the response of _revs_diff. Print a state line for each
      document of the list that has missing leaves.
  couch_journal received [--lacks]
      Read the requested leaves, an empty line and the received documents. Print the documents,
      and for each requested document a state line, and a lacks line if a leaf is missing. With
      --lacks, print only the leaves that are missing. Status 1 if a leaf is missing.
  couch_journal parts BYTES COUNT
      Cut lines into parts of at most COUNT lines and BYTES bytes, and at least one line. Print
      before each part a line with its numbers of lines and bytes.
  couch_journal refused
      Print a line for each document that a response of _bulk_docs refuses. Status 1 if there
      is one.
  couch_journal seal CHAIN SEQ
      Print the line with the checksum of a block. CHAIN is the hash of the block before it, or
      `start`.
  couch_journal confirm [--at SEQ]
      Print the longest prefix of a journal that its checksums confirm, and the documents of
      that prefix of which leaves are missing. With --at, the prefix ends at the last block of
      that sequence. Status 3 if the journal is damaged, 1 if no block has that sequence.
  couch_journal states [--unverified]
      Print the last state of each document of a journal.
  couch_journal select SIZE [--doc ID] [--several] [--unverified]
      Read a journal of SIZE bytes twice. Print the documents of the last states, with --doc of
      one document, with --several of those with two or more leaves. Status 1 if the journal
      does not have a leaf.
  couch_journal conflicts
      Print the documents with two or more live leaves, and their leaves.
  couch_journal name WORD
      Print a line WORD ID REV for each leaf of a list.
  couch_journal compare [--documents]
      Read a list, an empty line and another list. Print the leaves of the second list that the
      first does not have, with --documents those of documents that the first does not have.
  couch_journal info
      Print the identity of a server or a database and its update sequence, from a response of
      GET / or GET /db.

Exit status: 0 success; 1 as above; 2 usage error; 3 the input is damaged or has another form,
or reading, writing or an allocation failed.";

/// The reason why a command line names no task.
#[derive(Drop)]
pub(crate) enum NoTask {
    /// The error of `clap`. A request for help is also an error of `clap`.
    Words(Error),
    /// The task is unknown, or does not take the given arguments and options.
    Unknown,
    /// An allocation failed.
    Memory,
}

impl From<AllocError> for NoTask {
    ghost from_gives = { λ _ e. e ≡ Memory };

    fn from(_refused: AllocError) -> NoTask {
        NoTask::Memory
    }
}

/// The parsed arguments and options of a command line.
#[derive(Drop)]
pub(crate) struct Options<'a> {
    pub(crate) task: &'a str,
    pub(crate) first: Option<&'a str>,
    pub(crate) second: Option<&'a str>,
    pub(crate) at: Option<&'a str>,
    pub(crate) doc: Option<&'a str>,
    pub(crate) several: bool,
    pub(crate) lacks: bool,
    pub(crate) documents: bool,
    pub(crate) unverified: bool,
}

/// Defines an option with a string value.
fn text<'a>(alloc: Global, name: &'a str, value: &'a str, help: &'a str) -> Arg<'a>
    ensures rule { rule_of result ≡ text_option name.entry.now }
    ensures local { result.global ≡ false }
{
    Arg::new(alloc, name)
        .long(name)
        .value_name(value)
        .action(ArgAction::Set)
        .help(help)
}

/// Defines the argument that names the task.
fn task_word<'a>(alloc: Global) -> Arg<'a>
    ensures rule { rule_of result ≡ task_word }
    ensures local { result.global ≡ false }
{
    Arg::new(alloc, "task")
        .value_name("TASK")
        .required(true)
        .action(ArgAction::Set)
        .help("The task: see below")
}

/// Adds the positional arguments to a command line.
fn with_arguments<'a>(alloc: Global, command: Command<'a>) -> Result<Command<'a>, AllocError>
    ensures { IfOk result (λ c. app_of c ≡ with_arguments (app_of command.entry)) }
{
    command
        .arg(task_word(alloc))?
        .arg(hidden_word(alloc, "first"))?
        .arg(hidden_word(alloc, "second"))
}

/// Adds the options to a command line.
fn with_options<'a>(alloc: Global, command: Command<'a>) -> Result<Command<'a>, AllocError>
    ensures { IfOk result (λ c. app_of c ≡ with_options (app_of command.entry)) }
{
    let command = command
        .arg(text(alloc, "at", "SEQ", "End at this sequence (confirm)"))?
        .arg(text(alloc, "doc", "ID", "Select this document (select)"))?
        .arg(flag(
            alloc,
            "several",
            "Only documents with two or more leaves (page, select)",
        ))?
        .arg(flag(alloc, "lacks", "Print only missing leaves (received)"))?
        .arg(flag(
            alloc,
            "documents",
            "Only documents that the first list does not have (compare)",
        ))?
        .arg(flag(alloc, "unverified", "Ignore the checksums (states, select)"))?;
    Ok(command)
}

/// Defines the program's command line.
fn command<'a>(alloc: Global) -> Result<Command<'a>, AllocError>
    ensures { IfOk result (λ c. app_of c ≡ command_line) }
{
    let command = program(alloc, "couch_journal", ABOUT, TASKS_HELP);
    let command = with_arguments(alloc, command)?;
    with_options(alloc, command)
}

/// Parses the arguments. The first argument is the program's name.
///
/// # Errors
///
/// The call returns `Words` if `clap` rejects the arguments or the arguments request help, and `Memory` if an
/// allocation fails.
pub(crate) fn matches_of<'a>(alloc: Global, words: &'a [String]) -> Result<ArgMatches<'a>, NoTask>
    ensures ok { IfOk result (IsFound command_line (map string_bytes words.entry.now)) }
    ensures err { IfErr result (Refuses (map string_bytes words.entry.now)) }
{
    let command = command(alloc)?;
    match find(command, words) {
        Ok(matches) => Ok(matches),
        Err(error) => Err(NoTask::Words(error)),
    }
}

/// Returns the arguments and options that a command line gives.
pub(crate) fn options_of<'m, 'a>(matches: &'m ArgMatches<'a>) -> Options<'m>
    ensures { AreGiven (first_value (found_of matches.now)) (one_text (found_of matches.now)) result }
{
    let task = match matches.get_str("task") {
        Some(task) => task,
        None => "",
    };
    Options {
        task,
        first: matches.get_str("first"),
        second: matches.get_str("second"),
        at: matches.get_str("at"),
        doc: matches.get_str("doc"),
        several: matches.get_flag("several"),
        lacks: matches.get_flag("lacks"),
        documents: matches.get_flag("documents"),
        unverified: matches.get_flag("unverified"),
    }
}
