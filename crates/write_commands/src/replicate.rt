//! `replicate`: replicates from one database to another.
ghost use Rattle.std.specs.Prelude.{◌≡◌, ◌<◌, ◌≤◌, ◌++◌, [], true, OnOk, IfOk, IfErr};
ghost use Rattle.command_api.specs.Checks.{needed};
ghost use Rattle.std.specs.FinMap.{contains_key};
ghost use Rattle.script_databases.specs.Replications.{ReplicatesBetween};
ghost use Rattle.script_databases.specs.declared.refusal.Refusal.TheVariants.{BadMoment};
ghost use Rattle.json_values.specs.LineView.{line_view};
ghost use Rattle.script_engine.specs.Serving.{MayTell};
ghost use Rattle.command_api.specs.Telling.{told_by};
ghost use Rattle.write_commands.specs.Replicate.{EndsBy, ReportsReplication, checked_part, documents_part, ending_line, ending_of, ending_of_run, ending_of_watched, last_second, moment_of, options_in, plan_with, progress_line, replicate_asked, report_line, session_of, session_part, stopped_line, with_session};

use command_api::{
    Command, has_only_members, id_text, name_member, optional_flag, optional_texts, optional_uuid,
    optional_whole, push_number, read_choice,
};
use doc_json::Chosen;
use json_values::{Line, LineValue};
use repl_log::Moment;
use repl_pool::PoolFault;
use repl_target::{Plan, Report, TargetFault};
use rev_tree::SessionId;
use script_databases::{Databases, Refusal, Watched};
use std::alloc::{AllocError, Global};
use std::sync::Wait;
use std::thread::Threads;

/// The parameters of a `replicate` line.
#[derive(Drop)]
pub struct Replicate<'v, 'a> {
    pub source: &'v str,
    pub target: &'v str,
    /// The ids of the selected documents, which are strings. If the line has no member `doc_ids`, all documents are
    /// selected.
    pub doc_ids: Option<&'v [LineValue<'a>]>,
    pub options: Options,
}

/// The parameters of a replication other than its databases and selection. If the line does not give a parameter, the
/// parameter is `None` (`false` for `alone` and `progress`).
#[derive(Clone, Copy, Debug, PartialEq, Eq)]
pub struct Options {
    /// The id of the new session, which is a UUID as a number.
    pub session: Option<u128>,
    /// Whether the replication uses only one thread.
    pub alone: bool,
    /// The number of fetchers, and the number of writers.
    pub workers: Option<u64>,
    /// The maximum number of rows of a window.
    pub batch: Option<u64>,
    /// The timestamp of the session, in seconds of Unix time.
    pub at: Option<u64>,
    /// The number of windows after which the replication stops.
    pub stop_after: Option<u64>,
    /// Whether the command prints the counts of the progress board. The option `progress` has no effect if `alone` is
    /// true.
    pub progress: bool,
}

/// How a successful replication ended.
#[derive(Drop)]
enum Ending {
    /// The replication reached its goal, which is a sequence.
    Done(Report),
    /// The replication reached its goal, and the command read the progress board after the replication's end.
    Shown(Watched),
    /// The plan's limit stopped the replication. The variant has the low water, up to which all windows are done.
    Stopped(u64),
}

impl<'v, 'a> Command<&'v Line<'a>> for Replicate<'v, 'a> {
    ghost use Rattle.write_commands.specs.Replicate.{ReplicateAsk, ReportsReplication, replicate_asked, replicate_in};

    ghost seen = { λ line. line_view line.now };

    ghost Ask = { ReplicateAsk };

    ghost asked = { replicate_asked };

    ghost asked_in = { replicate_in };

    ghost answers = { ReportsReplication };

    fn read(line: &'v Line<'a>) -> Option<Replicate<'v, 'a>> {
        let value = line.value();
        let source = name_member(value, "source")?;
        let target = name_member(value, "target")?;
        let doc_ids = optional_texts(value, "doc_ids")?;
        let options = options_of(value)?;
        if !has_only_members(
            value,
            &[
                "do",
                "source",
                "target",
                "doc_ids",
                "session",
                "workers",
                "batch",
                "at",
                "stop_after",
                "alone",
                "progress",
            ],
        ) {
            return None;
        }
        Some(Replicate {
            source,
            target,
            doc_ids,
            options,
        })
    }

    /// Runs `replicate`. The call can block only if the option `alone` is false.
    fn serve<H: Threads + Wait + Sync>(
        &self,
        rt: &H,
        alloc: Global,
        databases: &mut Databases,
        answer: &mut Vec<u8>,
    ) -> Result<(), Refusal> {
        serve_replication(rt, alloc, databases, self, answer)
    }
}

/// Runs a replication, and prints the replication's result. The call first looks up both databases, then determines the
/// session id, and then parses the document ids. If the line gives no session id, the call generates an id. The call
/// can block only if the option `alone` is false.
#[inline(never)]
pub fn serve_replication<H: Threads + Wait + Sync>(
    rt: &H,
    alloc: Global,
    databases: &mut Databases,
    ask: &Replicate<'_, '_>,
    answer: &mut Vec<u8>,
) -> Result<(), Refusal>
    requires empty { answer.old.items ≡ [] }
    ensures { MayTell ReportsReplication databases.old (replicate_asked ask.now) (told_by result answer.new.items)
        databases.new }
{
    if !databases.has(ask.source) {
        return Err(Refusal::NoDatabase);
    }
    if !databases.has(ask.target) {
        return Err(Refusal::NoDatabase);
    }
    let session = session_asked(databases, &ask.options);
    let chosen = read_choice(alloc, ask.doc_ids)?;
    let plan = plan_asked(databases, &ask.options, session, chosen)?;
    let ending = run_plan(rt, alloc, databases, ask, &plan)?;
    print(alloc, answer, plan.session, &ending)?;
    Ok(())
}

/// Reads the parameters of a replication other than its databases and selection.
fn options_of(value: &LineValue<'_>) -> Option<Options>
    ensures { needed result ≡ options_in (line_view value.now) }
{
    let session = optional_uuid(value, "session")?;
    let workers = optional_whole(value, "workers")?;
    let batch = optional_whole(value, "batch")?;
    let at = optional_whole(value, "at")?;
    let stop_after = optional_whole(value, "stop_after")?;
    let alone = optional_flag(value, "alone")?.unwrap_or(false);
    let progress = optional_flag(value, "progress")?.unwrap_or(false);
    Some(Options {
        session,
        workers,
        batch,
        at,
        stop_after,
        alone,
        progress,
    })
}

/// Returns the given session id, or a generated id if none is given.
fn session_asked(databases: &mut Databases, options: &Options) -> u128
    ensures state { databases.new ≡ with_session databases.old options.now }
    ensures session { result ≡ session_of databases.old options.now }
{
    match options.session {
        Some(session) => session,
        None => databases.draw(),
    }
}

/// Builds the plan of a `replicate` line. If the line gives no worker count, batch size or timestamp, the plan uses the
/// program's setting.
///
/// # Errors
///
/// `BadMoment` if the timestamp is after the year 9999.
fn plan_asked(
    databases: &Databases,
    options: &Options,
    session: u128,
    chosen: Option<Chosen>,
) -> Result<Plan, Refusal>
    ensures ok { IfOk result
        (λ plan. (moment_of databases.now.program options.now ≤ last_second)
        × (plan ≡ plan_with databases.now.program options.now session chosen)) }
    ensures err { IfErr result
        (λ why. (why ≡ BadMoment) × (last_second < moment_of databases.now.program options.now)) }
{
    let settings = databases.settings();
    let Ok(at) = Moment::new(options.at.unwrap_or(settings.at)) else {
        return Err(Refusal::BadMoment);
    };
    Ok(Plan {
        session: SessionId(session),
        workers: options.workers.unwrap_or(settings.workers),
        batch: options.batch.unwrap_or(settings.batch),
        stop_after: options.stop_after,
        at,
        chosen,
    })
}

/// Replicates the source database of a line into the target database. Both databases exist. The call uses one thread if
/// `alone` is true, and otherwise the pool. The pool has a progress board if `progress` is true.
fn run_plan<H: Threads + Wait + Sync>(
    rt: &H,
    alloc: Global,
    databases: &mut Databases,
    ask: &Replicate<'_, '_>,
    plan: &Plan,
) -> Result<Ending, Refusal>
    requires source { contains_key databases.old.peers ask.now.source.now ≡ true }
    requires target { contains_key databases.old.peers ask.now.target.now ≡ true }
    ensures { ReplicatesBetween (EndsBy ask.now.options.alone ask.now.options.progress) databases.old
        ask.now.source.now ask.now.target.now plan.now result databases.new }
{
    if ask.options.alone {
        return ending_of(databases.replicate_alone(alloc, ask.source, ask.target, plan));
    }
    if ask.options.progress {
        let outcome = databases.replicate_watched(rt, alloc, ask.source, ask.target, plan);
        return ending_of_watched(outcome);
    }
    ending_of_run(databases.replicate(rt, alloc, ask.source, ask.target, plan))
}

/// Converts the result of the pool (with a progress board) to an `Ending`, or to the error of the script line.
fn ending_of_watched(outcome: Result<Watched, PoolFault>) -> Result<Ending, Refusal>
    ensures { result ≡ ending_of_watched outcome }
{
    match outcome {
        Ok(watched) => Ok(Ending::Shown(watched)),
        Err(fault) => ending_of_run(Err(fault)),
    }
}

/// Converts the result of the pool (without a progress board) to an `Ending`, or to the error of the script line. A
/// replication that the plan's limit stopped has not failed.
fn ending_of_run(outcome: Result<Report, PoolFault>) -> Result<Ending, Refusal>
    ensures { result ≡ ending_of_run outcome }
{
    match outcome {
        Ok(report) => Ok(Ending::Done(report)),
        Err(fault) => match Refusal::run_stop_of(fault) {
            Ok(low_water) => Ok(Ending::Stopped(low_water)),
            Err(refusal) => Err(refusal),
        },
    }
}

/// Converts the result of a replication with one thread to an `Ending`, or to the error of the script line. A
/// replication that the plan's limit stopped has not failed.
fn ending_of(outcome: Result<Report, TargetFault>) -> Result<Ending, Refusal>
    ensures { result ≡ ending_of outcome }
{
    match outcome {
        Ok(report) => Ok(Ending::Done(report)),
        Err(fault) => match Refusal::stop_of(fault) {
            Ok(low_water) => Ok(Ending::Stopped(low_water)),
            Err(refusal) => Err(refusal),
        },
    }
}

/// Prints how a session ended.
fn print(
    alloc: Global,
    answer: &mut Vec<u8>,
    session: SessionId,
    ending: &Ending,
) -> Result<(), AllocError>
    ensures { OnOk result (answer.new.items ≡ answer.old.items ++ ending_line session ending.now) }
{
    match ending {
        Ending::Done(report) => print_report(alloc, answer, report),
        Ending::Shown(watched) => {
            print_progress(answer, watched)?;
            print_report(alloc, answer, &watched.report)
        }
        Ending::Stopped(low_water) => print_stopped(alloc, answer, session, *low_water),
    }
}

/// Prints the counts that the progress board of a run showed.
fn print_progress(answer: &mut Vec<u8>, watched: &Watched) -> Result<(), AllocError>
    ensures { OnOk result (answer.new.items ≡ answer.old.items ++ progress_line watched.now) }
{
    answer.extend_from_slice(b"progress ")?;
    push_number(answer, watched.settled)?;
    answer.extend_from_slice(b" of ")?;
    push_number(answer, watched.read)?;
    answer.extend_from_slice(b"\n")
}

/// Prints the report of a session.
fn print_report(alloc: Global, answer: &mut Vec<u8>, report: &Report) -> Result<(), AllocError>
    ensures { OnOk result (answer.new.items ≡ answer.old.items ++ report_line report.now) }
{
    push_session(alloc, answer, report)?;
    push_checked(answer, report)?;
    push_documents(answer, report)?;
    answer.extend_from_slice(b"\n")
}

/// Appends the session id, the start and the recorded sequence of a session.
fn push_session(alloc: Global, answer: &mut Vec<u8>, report: &Report) -> Result<(), AllocError>
    ensures { OnOk result (answer.new.items ≡ answer.old.items ++ session_part report.now) }
{
    let id = id_text(alloc, report.session.0)?;
    answer.extend_from_slice(b"session ")?;
    answer.extend_from_slice(id.as_bytes())?;
    answer.extend_from_slice(b" from ")?;
    push_number(answer, report.start)?;
    answer.extend_from_slice(b" to ")?;
    push_number(answer, report.recorded)
}

/// Appends two counts of a session: the leaves that were checked, and the checked leaves that the target lacked.
fn push_checked(answer: &mut Vec<u8>, report: &Report) -> Result<(), AllocError>
    ensures { OnOk result (answer.new.items ≡ answer.old.items ++ checked_part report.now) }
{
    answer.extend_from_slice(b" checked ")?;
    push_number(answer, report.counts.checked)?;
    answer.extend_from_slice(b" found ")?;
    push_number(answer, report.counts.found)
}

/// Appends the numbers of documents that were read, written and refused.
fn push_documents(answer: &mut Vec<u8>, report: &Report) -> Result<(), AllocError>
    ensures { OnOk result (answer.new.items ≡ answer.old.items ++ documents_part report.now) }
{
    answer.extend_from_slice(b" read ")?;
    push_number(answer, report.counts.read)?;
    answer.extend_from_slice(b" written ")?;
    push_number(answer, report.counts.written)?;
    answer.extend_from_slice(b" failed ")?;
    push_number(answer, report.counts.failures)
}

/// Prints the low water of a session that the plan's limit stopped.
fn print_stopped(
    alloc: Global,
    answer: &mut Vec<u8>,
    session: SessionId,
    low_water: u64,
) -> Result<(), AllocError>
    ensures { OnOk result (answer.new.items ≡ answer.old.items ++ stopped_line session low_water) }
{
    let id = id_text(alloc, session.0)?;
    answer.extend_from_slice(b"stopped ")?;
    answer.extend_from_slice(id.as_bytes())?;
    answer.extend_from_slice(b" at ")?;
    push_number(answer, low_water)?;
    answer.extend_from_slice(b"\n")
}
