//! The tasks of the program.
ghost use Rattle.std.specs.Prelude.{◌≡◌, ℕ, IfOk, IfErr, IfSome, IfNone, option_map, string_bytes};
ghost use Rattle.std.specs.List.{list_all};
ghost use Rattle.couch_lines.specs.declared.tasks.Named.{Named};
ghost use Rattle.couch_lines.specs.declared.tasks.Named.TheVariants as named;
ghost use Rattle.couch_lines.specs.Tasks.{Asks, AskNothing, Fits, FitsNone, NamesNone, IsNamed, IsSize, is_name, is_name_byte, word_of};

use crate::options::NoTask;
use std::alloc::Global;

/// A task with its arguments.
#[derive(Drop)]
pub enum Task {
    /// The task `Load(db, whole)` writes `load` lines for the documents in CouchDB responses. If `whole` is true, the
    /// task wraps each document in an envelope.
    Load(String, bool),
    /// The task `Ids(n)` writes the bodies of `_bulk_get` requests for the leaves in a changes feed or a `_revs_diff`
    /// response. A body has at most `n` leaves, or all leaves if `n` is 0.
    Ids(u64),
    /// The task `Diff(n)` writes the bodies of `_revs_diff` requests for the leaves in a changes feed. A body has at
    /// most `n` documents, or all documents if `n` is 0.
    Diff(u64),
    /// The task `Leaves(db)` writes a `doc` line for each leaf in the `change` lines of a script's output.
    Leaves(String),
    /// The task `Bulk(n, whole)` writes bodies of `_bulk_docs` with at most `n` documents each. If `whole` is true, the
    /// task takes each document out of its envelope.
    Bulk(u64, bool),
    /// The task `Trees(db, svg)` draws the output of a script, as SVG if `svg` is true and otherwise as text. If
    /// `Trees` draws as text and `db` is a database name, the output also has the commands that resolve the database's
    /// conflicts.
    Trees(Option<String>, bool),
}

/// The name of a task.
#[derive(Clone, Copy, Debug, PartialEq, Eq)]
pub enum Named {
    Load,
    Ids,
    Diff,
    Leaves,
    Bulk,
    Trees,
}

/// The default number of documents per request body.
const SIZE: u64 = 1000;

/// The maximum number of bytes of a database name.
const MAX_NAME: usize = 32;

/// Whether a byte is allowed in a database name.
fn is_name_byte(byte: u8) -> bool
    ensures { result ≡ is_name_byte byte }
{
    byte >= b'a' && byte <= b'z'
        || byte >= b'A' && byte <= b'Z'
        || byte >= b'0' && byte <= b'9'
        || byte == b'-'
        || byte == b'_'
}

/// Whether each byte of a text is allowed in a database name.
fn are_name_bytes(bytes: &[u8]) -> bool
    ensures { result ≡ list_all is_name_byte bytes.now }
{
    bytes.iter().all(|b| is_name_byte(*b))
}

/// Whether a string is a valid database name.
fn is_name(text: &str) -> bool
    ensures { result ≡ is_name text.now }
{
    let bytes = text.as_bytes();
    if bytes.is_empty() || bytes.len() > MAX_NAME {
        return false;
    }
    are_name_bytes(bytes)
}

/// Parses the name of a task.
fn named_by(word: &str) -> Option<Named>
    ensures some { IfSome result (λ n. word.now ≡ word_of n) }
    ensures none { IfNone result ((n : Named) → word.now ≡ word_of n → ⊥) }
{
    if word == "load" {
        Some(Named::Load)
    } else if word == "ids" {
        Some(Named::Ids)
    } else if word == "diff" {
        Some(Named::Diff)
    } else if word == "leaves" {
        Some(Named::Leaves)
    } else if word == "bulk" {
        Some(Named::Bulk)
    } else if word == "trees" {
        Some(Named::Trees)
    } else {
        None
    }
}

/// Builds a task from the task's name `word`, the optional argument `second`, and two flags. The argument `third` is a
/// surplus argument, if there is one.
///
/// # Errors
///
/// The call returns `Unknown` if no task has the given name, and `Wrong` if the task does not take the given arguments.
/// The call returns `Memory` if an allocation failed.
pub fn task_of(
    alloc: Global,
    word: Option<&str>,
    second: Option<&str>,
    third: Option<&str>,
    whole: bool,
    svg: bool,
) -> Result<Task, NoTask>
    ensures ok { IfOk result (λ task. Asks (option_map (λ s. s.now) word.entry)
        (option_map (λ s. s.now) second.entry) (option_map (λ s. s.now) third.entry) whole svg task) }
    ensures err { IfErr result (λ why. AskNothing (option_map (λ s. s.now) word.entry)
        (option_map (λ s. s.now) second.entry) (option_map (λ s. s.now) third.entry) whole svg why) }
{
    let Some(word) = word else {
        return Err(NoTask::Unknown);
    };
    let Some(named) = named_by(word) else {
        return Err(NoTask::Unknown);
    };
    if third.is_some() {
        return Err(NoTask::Wrong(named));
    }
    match fitting(alloc, named, second, whole, svg) {
        Ok(task) => Ok(task),
        Err(why) => Err(why),
    }
}

/// Builds the named task from an optional argument and the flags.
///
/// # Errors
///
/// The call returns `Wrong` if the task does not take the given argument or the given flags.
fn fitting(
    alloc: Global,
    named: Named,
    word: Option<&str>,
    whole: bool,
    svg: bool,
) -> Result<Task, NoTask>
    ensures ok { IfOk result (λ task. Fits named (option_map (λ s. s.now) word.entry) whole svg task) }
    ensures err { IfErr result (λ why. FitsNone named (option_map (λ s. s.now) word.entry) whole svg why) }
{
    match named {
        Named::Trees => drawing(alloc, word, whole, svg),
        _ if svg => Err(NoTask::Wrong(named)),
        Named::Load => match name_of(alloc, named, word) {
            Ok(db) => Ok(Task::Load(db, whole)),
            Err(why) => Err(why),
        },
        Named::Bulk => match size_of(word, SIZE) {
            Some(size) => Ok(Task::Bulk(size, whole)),
            None => Err(NoTask::Wrong(named)),
        },
        _ if whole => Err(NoTask::Wrong(named)),
        Named::Leaves => match name_of(alloc, named, word) {
            Ok(db) => Ok(Task::Leaves(db)),
            Err(why) => Err(why),
        },
        Named::Ids => match size_of(word, 0) {
            Some(size) => Ok(Task::Ids(size)),
            None => Err(NoTask::Wrong(named)),
        },
        Named::Diff => match size_of(word, 0) {
            Some(size) => Ok(Task::Diff(size)),
            None => Err(NoTask::Wrong(named)),
        },
    }
}

/// Builds the task `trees`.
///
/// # Errors
///
/// The call returns `Wrong` if the argument is not a database name, or if `--whole` is given.
fn drawing(alloc: Global, word: Option<&str>, whole: bool, svg: bool) -> Result<Task, NoTask>
    ensures ok { IfOk result (λ task. Fits named.Trees (option_map (λ s. s.now) word.entry) whole svg task) }
    ensures err { IfErr result (λ why. FitsNone named.Trees (option_map (λ s. s.now) word.entry) whole svg why) }
{
    if whole {
        return Err(NoTask::Wrong(Named::Trees));
    }
    if word.is_none() {
        return Ok(Task::Trees(None, svg));
    }
    match name_of(alloc, Named::Trees, word) {
        Ok(db) => Ok(Task::Trees(Some(db), svg)),
        Err(why) => Err(why),
    }
}

/// Parses a database name.
///
/// # Errors
///
/// The call returns `Wrong` if the argument is missing or is not a database name.
fn name_of(alloc: Global, named: Named, word: Option<&str>) -> Result<String, NoTask>
    ensures ok { IfOk result (λ db. IsNamed (option_map (λ s. s.now) word.entry) (string_bytes db)) }
    ensures err { IfErr result (λ why. NamesNone named (option_map (λ s. s.now) word.entry) why) }
{
    let Some(word) = word else {
        return Err(NoTask::Wrong(named));
    };
    if !is_name(word) {
        return Err(NoTask::Wrong(named));
    }
    let db = String::from_str(alloc, word)?;
    Ok(db)
}

/// Parses a number greater than 0, or returns the default if the argument is absent.
fn size_of(word: Option<&str>, absent: u64) -> Option<u64>
    ensures some { IfSome result (λ n. IsSize absent (option_map (λ s. s.now) word.entry) n) }
    ensures none { IfNone result ((n : ℕ) → IsSize absent (option_map (λ s. s.now) word.entry) n → ⊥) }
{
    let Some(word) = word else {
        return Some(absent);
    };
    match word.parse::<u64>() {
        Ok(size) if size > 0 => Some(size),
        _ => None,
    }
}
