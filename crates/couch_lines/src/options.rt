//! The command line.
ghost use Rattle.std.specs.Prelude.{◌≡◌, IfOk, IfErr, map, string_bytes, codes, false};
ghost use Rattle.clap.specs.Words.{app_of, found_of, first_value, one_text, rule_of};
ghost use Rattle.couch_lines.specs.declared.options.NoTask.TheVariants.{Memory};
ghost use Rattle.couch_lines.specs.Tasks.{Says, Refuses, SaysBy, RefusesBy, task_word, second_word, command_line};

use crate::tasks::{Named, Task, task_of};
use clap::{Arg, ArgAction, ArgMatches, Command, Error};
use cli_common::{find, flag, hidden_word, program};
use std::alloc::{AllocError, Global};

/// The description of the program for `--help`.
const ABOUT: &str =
    "Converts responses of CouchDB to script lines, and documents to requests to CouchDB.";

/// The description of the tasks for `--help`.
const TASKS_HELP: &str = "Reads standard input and writes standard output.
DB is a name of 1 to 32 letters, digits, `-` or `_`; N is a positive integer.

  couch_lines load DB [--whole]
      Print a `load` line for each document in responses of CouchDB (_bulk_get?revs=true,
      {docid}?open_revs=all&revs=true as JSON, _all_docs?include_docs=true,
      _changes?include_docs=true, _find, a single document), and in files of such
      documents (couchbackup, couchdb-dump, pouchdb-dump, bodies of _bulk_docs, output of
      `doc` lines).
      The input may contain several of these.
  couch_lines ids [N]
      Print bodies of _bulk_get requests for each leaf in a response of
      _changes?style=all_docs or of _revs_diff: N leaves per body, one body per line.
      Without N, print one body.
  couch_lines diff [N]
      Print bodies of _revs_diff requests for the leaves in a response of
      _changes?style=all_docs or of _revs_diff: N documents per body, one body per line.
      Without N, print one body.
  couch_lines leaves DB
      Print a `doc` line for each leaf in the `change` lines of a script's output.
  couch_lines bulk [N] [--whole]
      Print bodies of _bulk_docs requests that store the documents in the same responses
      and files, in `load` lines, and in the output of `doc` lines: N documents per body
      (default 1000), one body per line.
  couch_lines trees [DB] [--svg]
      Draw a script's output, as text or as one SVG picture: the revision trees of `show`
      and `conflicts` (with DB, the name of the database, the text includes the `edit`
      lines that end a conflict); what `compare` finds and counts; the numbers of `info`
      and of sessions; and the sessions of `log`.

A document is an object whose first member is `_id`, an item with a member `_id` of an
outermost list `docs`, or one that a response of CouchDB contains. Its text is copied; only
white space outside strings may change. An entry that contains no document, or for ids and
diff no leaf, is skipped, as is a line that couch_replicate does not print for trees; the
number of skipped entries or lines is printed on standard error. `bulk` fails on an object
that contains no document.

With --whole, `load` puts all members except _id, _rev, _revisions and _deleted into one
string member `whole`, and does not interpret them. So numbers such as 12.5, attachments
and all other members pass through couch_replicate unchanged. `bulk --whole` restores them.

Exit status: 0 success; 1 an entry or line was skipped, or `trees` ran out of memory for a line;
2 usage error; 3 the input is an error of CouchDB, is none of the above or is truncated, or
reading, writing or an allocation failed.";

/// The reason why a command line names no task.
#[derive(Drop)]
pub enum NoTask {
    /// An error of `clap`. A request for help or for the version is also an error of `clap`.
    Words(Error),
    /// The task is unknown.
    Unknown,
    /// The task in the command line does not accept the given arguments and flags.
    Wrong(Named),
    /// An allocation failed.
    Memory,
}

impl From<AllocError> for NoTask {
    ghost from_gives = { λ _ e. e ≡ Memory };

    fn from(_refused: AllocError) -> NoTask {
        NoTask::Memory
    }
}

/// Parses the arguments. The first argument is the program's name.
pub fn read_words<'a>(alloc: Global, words: &'a [String]) -> Result<Task, NoTask>
    ensures ok { IfOk result (λ task. Says (map string_bytes words.entry.now) task) }
    ensures err { IfErr result (λ why. Refuses (map string_bytes words.entry.now) why) }
{
    let command = command(alloc)?;
    match find(command, words) {
        Ok(matches) => task_said(alloc, &matches),
        Err(error) => Err(NoTask::Words(error)),
    }
}

/// Reads the task and the task's arguments from the parsed command line.
fn task_said(alloc: Global, matches: &ArgMatches<'_>) -> Result<Task, NoTask>
    ensures ok { IfOk result (λ task. SaysBy (first_value (found_of matches.now))
        (one_text (found_of matches.now) (codes "whole")) (one_text (found_of matches.now) (codes "svg")) task) }
    ensures err { IfErr result (λ why. RefusesBy (first_value (found_of matches.now))
        (one_text (found_of matches.now) (codes "whole")) (one_text (found_of matches.now) (codes "svg")) why) }
{
    let word = matches.get_str("task");
    let second = matches.get_str("of");
    let third = matches.get_str("further");
    let whole = matches.get_flag("whole");
    let svg = matches.get_flag("svg");
    match task_of(alloc, word, second, third, whole, svg) {
        Ok(task) => Ok(task),
        Err(why) => Err(why),
    }
}

/// Defines the command line: three positional arguments, `--whole`, `--svg`, `--help` and `--version`.
fn command<'a>(alloc: Global) -> Result<Command<'a>, AllocError>
    ensures { IfOk result (λ c. app_of c ≡ command_line) }
{
    let command = program(alloc, "couch_lines", ABOUT, TASKS_HELP)
        .arg(first_word(alloc))?
        .arg(second_word(alloc))?
        .arg(hidden_word(alloc, "further"))?
        .arg(flag(
            alloc,
            "whole",
            "Put documents into envelopes (load), or take them out (bulk)",
        ))?
        .arg(flag(alloc, "svg", "Draw one SVG picture (trees)"))?;
    Ok(command)
}

/// Defines the argument that names the task.
fn first_word<'a>(alloc: Global) -> Arg<'a>
    ensures rule { rule_of result ≡ task_word }
    ensures local { result.global ≡ false }
{
    Arg::new(alloc, "task")
        .value_name("TASK")
        .required(true)
        .action(ArgAction::Set)
        .help("`load`, `ids`, `diff`, `leaves`, `bulk` or `trees`")
}

/// Defines the positional argument that the task takes.
fn second_word<'a>(alloc: Global) -> Arg<'a>
    ensures rule { rule_of result ≡ second_word }
    ensures local { result.global ≡ false }
{
    Arg::new(alloc, "of")
        .value_name("DB|N")
        .action(ArgAction::Set)
        .help("The name of a database (load, leaves, trees), or a number (ids, diff, bulk)")
}
