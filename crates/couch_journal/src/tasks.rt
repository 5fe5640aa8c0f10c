//! The tasks of the program, and their arguments.
ghost use Rattle.std.specs.Prelude.{◌≡◌, ℕ, IfSome, IfNone};
ghost use Rattle.couch_journal.specs.declared.tasks.Named.{Named};
ghost use Rattle.couch_journal.specs.declared.tasks.Named.TheVariants as named;
ghost use Rattle.couch_journal.specs.declared.tasks.Task.{Task};
ghost use Rattle.couch_journal.specs.Tasks.{Fits, IsNumber, IsTaskOf, IsTaskless, Takes, arguments_given, arguments_of, has_other_option, is_other, takes_at, takes_doc, takes_documents, takes_lacks, takes_several, takes_unverified, word_of};

use crate::options::Options;

/// A task with its arguments.
#[derive(Drop)]
pub(crate) enum Task<'a> {
    /// Prints the rows of a page of changes. The task `Page(true)` prints only the rows with several leaves.
    Page(bool),
    /// Prints a `_bulk_get` request for the leaves of a list.
    Ask,
    /// Prints a `_revs_diff` request for the leaves of a list.
    Diff,
    /// Prints the leaves of a list that a response of `_revs_diff` names as missing.
    Lacking,
    /// Prints the received documents, and the requested leaves that were not received. If the Boolean is true, prints
    /// only the leaves that were not received.
    Received(bool),
    /// Splits the input's lines into parts, with a maximum number of bytes and a maximum number of lines per part.
    Parts(u64, u64),
    /// Prints the documents that a server refused to store.
    Refused,
    /// Prints the line with the checksum of a block, for the given hash of the previous block and the given sequence.
    Seal(&'a str, &'a str),
    /// Prints how much of a journal the journal's checksums confirm. If a sequence is given, the report ends at the
    /// last block of this sequence.
    Confirm(Option<&'a str>),
    /// Prints the last state of each document of a journal. The task `States(true)` does not verify the journal's
    /// checksums.
    States(bool),
    /// For each leaf in a document's last state, prints the last line of the journal that contains this leaf. The
    /// parameter of `Select` is the journal's size in bytes.
    Select(u64),
    /// Prints the documents that have two or more live leaves.
    Conflicts,
    /// Prints a line for each leaf. Each line begins with the given word.
    Name(&'a str),
    /// Reads two lists of leaves, and prints the leaves that only the second list has. `Compare(true)` prints a leaf
    /// only if the first list does not contain the leaf's document.
    Compare(bool),
    /// Prints the identity of a server or of a database.
    Info,
}

/// The name of a task on the command line.
#[derive(Clone, Copy, Debug, PartialEq, Eq)]
enum Named {
    Page,
    Ask,
    Diff,
    Lacking,
    Received,
    Parts,
    Refused,
    Seal,
    Confirm,
    States,
    Select,
    Conflicts,
    Name,
    Compare,
    Info,
}

/// Parses the name of a task.
fn named_by(word: &str) -> Option<Named>
    ensures some { IfSome result (λ n. word.now ≡ word_of n) }
    ensures none { IfNone result ((n : Named) → word.now ≡ word_of n → ⊥) }
{
    if word == "page" {
        Some(Named::Page)
    } else if word == "ask" {
        Some(Named::Ask)
    } else if word == "diff" {
        Some(Named::Diff)
    } else if word == "lacking" {
        Some(Named::Lacking)
    } else if word == "received" {
        Some(Named::Received)
    } else if word == "parts" {
        Some(Named::Parts)
    } else if word == "refused" {
        Some(Named::Refused)
    } else if word == "seal" {
        Some(Named::Seal)
    } else if word == "confirm" {
        Some(Named::Confirm)
    } else if word == "states" {
        Some(Named::States)
    } else if word == "select" {
        Some(Named::Select)
    } else if word == "conflicts" {
        Some(Named::Conflicts)
    } else if word == "name" {
        Some(Named::Name)
    } else if word == "compare" {
        Some(Named::Compare)
    } else if word == "info" {
        Some(Named::Info)
    } else {
        None
    }
}

/// Whether a task takes the option `--at`.
fn takes_at(named: Named) -> bool
    ensures { result ≡ takes_at named }
{
    match named {
        Named::Confirm => true,
        _ => false,
    }
}

/// Whether a task takes the option `--doc`.
fn takes_doc(named: Named) -> bool
    ensures { result ≡ takes_doc named }
{
    match named {
        Named::Select => true,
        _ => false,
    }
}

/// Whether a task takes the option `--several`.
fn takes_several(named: Named) -> bool
    ensures { result ≡ takes_several named }
{
    match named {
        Named::Page | Named::Select => true,
        _ => false,
    }
}

/// Whether a task takes the option `--lacks`.
fn takes_lacks(named: Named) -> bool
    ensures { result ≡ takes_lacks named }
{
    match named {
        Named::Received => true,
        _ => false,
    }
}

/// Whether a task takes the option `--documents`.
fn takes_documents(named: Named) -> bool
    ensures { result ≡ takes_documents named }
{
    match named {
        Named::Compare => true,
        _ => false,
    }
}

/// Whether a task takes the option `--unverified`.
fn takes_unverified(named: Named) -> bool
    ensures { result ≡ takes_unverified named }
{
    match named {
        Named::States | Named::Select => true,
        _ => false,
    }
}

/// Whether the command line gives an option, but the task does not take this option.
fn is_other(given: bool, taken: bool) -> bool
    ensures { result ≡ is_other given taken }
{
    given && !taken
}

/// Whether the command line gives at least one option that the task `named` does not take.
fn has_other_option(named: Named, options: &Options<'_>) -> bool
    ensures { result ≡ has_other_option named options.now }
{
    let at = is_other(options.at.is_some(), takes_at(named));
    let doc = is_other(options.doc.is_some(), takes_doc(named));
    let several = is_other(options.several, takes_several(named));
    let lacks = is_other(options.lacks, takes_lacks(named));
    let documents = is_other(options.documents, takes_documents(named));
    let unverified = is_other(options.unverified, takes_unverified(named));
    at || doc || several || lacks || documents || unverified
}

/// Returns the number of arguments that a task takes.
fn arguments_of(named: Named) -> u8
    ensures { result ≡ arguments_of named }
{
    match named {
        Named::Parts | Named::Seal => 2,
        Named::Select | Named::Name => 1,
        _ => 0,
    }
}

/// Returns the number of arguments after the name of the task in the command line.
fn arguments_given(options: &Options<'_>) -> u8
    ensures { result ≡ arguments_given options.now }
{
    if options.second.is_some() {
        2
    } else if options.first.is_some() {
        1
    } else {
        0
    }
}

/// Returns the task of a command line, or `None` if the name, the arguments or the options are wrong.
pub(crate) fn task_of<'a>(options: &Options<'a>) -> Option<Task<'a>>
    ensures some { IfSome result (IsTaskOf options.now) }
    ensures none { IfNone result (IsTaskless options.now) }
{
    let Some(named) = named_by(options.task) else {
        return None;
    };
    taken(named, options)
}

/// Returns the named task with its arguments and options, or `None` if the arguments or the options are wrong.
fn taken<'a>(named: Named, options: &Options<'a>) -> Option<Task<'a>>
    ensures some { IfSome result (Takes named options.now) }
    ensures none { IfNone result ((task : Task) → Takes named options.now task → ⊥) }
{
    if has_other_option(named, options) || arguments_given(options) != arguments_of(named) {
        return None;
    }
    fitting(named, options)
}

/// Returns the named task with its arguments and options, or `None` if an argument is wrong.
fn fitting<'a>(named: Named, options: &Options<'a>) -> Option<Task<'a>>
    ensures some { IfSome result (Fits named options.now) }
    ensures none { IfNone result ((task : Task) → Fits named options.now task → ⊥) }
{
    match named {
        Named::Page => Some(Task::Page(options.several)),
        Named::Ask => Some(Task::Ask),
        Named::Diff => Some(Task::Diff),
        Named::Lacking => Some(Task::Lacking),
        Named::Received => Some(Task::Received(options.lacks)),
        Named::Parts => parts_of(options),
        Named::Refused => Some(Task::Refused),
        Named::Seal => seal_of(options),
        Named::Confirm => Some(Task::Confirm(options.at)),
        Named::States => Some(Task::States(options.unverified)),
        Named::Select => select_of(options),
        Named::Conflicts => Some(Task::Conflicts),
        Named::Name => name_of(options),
        Named::Compare => Some(Task::Compare(options.documents)),
        Named::Info => Some(Task::Info),
    }
}

fn parts_of<'a>(options: &Options<'a>) -> Option<Task<'a>>
    ensures some { IfSome result (Fits named.Parts options.now) }
    ensures none { IfNone result ((task : Task) → Fits named.Parts options.now task → ⊥) }
{
    let Some(bytes) = number_of(options.first) else {
        return None;
    };
    let Some(lines) = number_of(options.second) else {
        return None;
    };
    Some(Task::Parts(bytes, lines))
}

fn seal_of<'a>(options: &Options<'a>) -> Option<Task<'a>>
    ensures some { IfSome result (Fits named.Seal options.now) }
    ensures none { IfNone result ((task : Task) → Fits named.Seal options.now task → ⊥) }
{
    let Some(chain) = options.first else {
        return None;
    };
    let Some(seq) = options.second else {
        return None;
    };
    Some(Task::Seal(chain, seq))
}

fn select_of<'a>(options: &Options<'a>) -> Option<Task<'a>>
    ensures some { IfSome result (Fits named.Select options.now) }
    ensures none { IfNone result ((task : Task) → Fits named.Select options.now task → ⊥) }
{
    match number_of(options.first) {
        Some(size) => Some(Task::Select(size)),
        None => None,
    }
}

fn name_of<'a>(options: &Options<'a>) -> Option<Task<'a>>
    ensures some { IfSome result (Fits named.Name options.now) }
    ensures none { IfNone result ((task : Task) → Fits named.Name options.now task → ⊥) }
{
    match options.first {
        Some(word) => Some(Task::Name(word)),
        None => None,
    }
}

/// Returns the number in an argument, or `None` if the argument is not a number.
fn number_of(word: Option<&str>) -> Option<u64>
    ensures some { IfSome result (IsNumber word.entry) }
    ensures none { IfNone result ((n : ℕ) → IsNumber word.entry n → ⊥) }
{
    let Some(word) = word else {
        return None;
    };
    match word.parse::<u64>() {
        Ok(number) => Some(number),
        Err(_) => None,
    }
}
