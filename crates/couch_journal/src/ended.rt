//! The outcome of a run of the program.
ghost use Rattle.std.specs.Prelude.{◌≡◌};
ghost use Rattle.couch_journal.specs.Status.{confirm_outcome, damaged_or, differs_or, missing_or_done, other_or_done, wrong_or};

use crate::options::NoTask;
use journal_responses::Said;
use script_engine::ScriptFault;

/// The outcome of a task.
#[derive(Drop)]
pub(crate) enum Outcome {
    /// The task succeeded, which gives the exit status 0.
    Done,
    /// The task found that something is missing, refused or not found.
    Missing,
    /// The input line with the given number, from 1, does not have the form that the task reads.
    Wrong(u64),
    /// The journal is damaged after the given number of lines.
    Damaged(u64),
    /// The journal has no checksums.
    NoSums,
    /// The second copy of the journal differs from the first.
    Differs,
    /// The response does not have the form that the task reads.
    Said(Said),
}

/// How a run of the program ended.
#[derive(Drop)]
pub(crate) enum Ended {
    /// The arguments name no task, and no byte was read or written.
    NotRun(NoTask),
    /// The outcome of a task, or the fault that stopped the task.
    Ran(Result<Outcome, ScriptFault>),
}

/// Returns the outcome of a task whose first wrong line has the number `wrong`. If no line is wrong, the outcome is
/// `otherwise`.
pub(crate) fn wrong_or(wrong: Option<u64>, otherwise: Outcome) -> Outcome
    ensures { result ≡ wrong_or wrong otherwise }
{
    match wrong {
        Some(line) => Outcome::Wrong(line),
        None => otherwise,
    }
}

/// Returns the outcome of a task that reads a journal with `lines` confirmed lines. If the journal is not damaged, the
/// outcome is `otherwise`.
pub(crate) fn damaged_or(damaged: bool, lines: u64, otherwise: Outcome) -> Outcome
    ensures { result ≡ damaged_or damaged lines otherwise }
{
    if damaged {
        Outcome::Damaged(lines)
    } else {
        otherwise
    }
}

/// Returns the outcome of the task `confirm`. The argument `not_found` says whether no block has the given sequence, and
/// `done` whether a sequence is given or the complete journal is confirmed. The argument `without_sums` says whether the
/// journal has no checksums, and `lines` is the number of confirmed lines.
pub(crate) fn confirm_outcome(
    not_found: bool,
    done: bool,
    without_sums: bool,
    lines: u64,
) -> Outcome
    ensures { result ≡ confirm_outcome not_found done without_sums lines }
{
    if not_found {
        Outcome::Missing
    } else if done {
        Outcome::Done
    } else if without_sums {
        Outcome::NoSums
    } else {
        Outcome::Damaged(lines)
    }
}

/// Returns the outcome of a task that reads two copies of a journal: `Differs` if the copies differ, and otherwise
/// `otherwise`.
pub(crate) fn differs_or(differs: bool, otherwise: Outcome) -> Outcome
    ensures { result ≡ differs_or differs otherwise }
{
    if differs { Outcome::Differs } else { otherwise }
}

/// Returns the outcome `Missing` if `missing` is true, and otherwise `Done`.
pub(crate) fn missing_or_done(missing: bool) -> Outcome
    ensures { result ≡ missing_or_done missing }
{
    if missing {
        Outcome::Missing
    } else {
        Outcome::Done
    }
}

/// Returns `Done` if the response has the expected form, and otherwise `Said(Other)`.
pub(crate) fn other_or_done(other: bool) -> Outcome
    ensures { result ≡ other_or_done other }
{
    if other {
        Outcome::Said(Said::Other)
    } else {
        Outcome::Done
    }
}
