//! Runs the program with a given reader as input and a given writer as output.
ghost use Rattle.std.specs.Prelude.{◌≡◌, ℕ, List, [], Some, IfOk, OnOk, false, map, option_map, string_bytes};
ghost use Rattle.response_output.specs.Stored.{words_of_wording};
ghost use Rattle.std.specs.Io.KnownBytes.{Appends};
ghost use Rattle.diagrams.specs.Drawing.{PicturedBy};
ghost use Rattle.couch_lines.specs.Runs.{RunsWords, IfDone, EndedCounts, DrawnCounts, RunCounts, IsDone, Makes, form_of, is_drawn, wanted_of, words_of_task};

use crate::options::{NoTask, read_words};
use crate::tasks::Task;
use diagrams::{Form, Outcome, draw_answers};
use response_output::{AnswerFault, Wording, run_answers};
use response_parser::{Reading, Wanted};
use script_engine::{ScriptFault, ScriptRead, ScriptWrite};
use std::alloc::{AllocError, Global};

/// How a run ended.
#[derive(Drop)]
pub enum Ended {
    /// The arguments name no task, and nothing was read.
    NotRun(NoTask),
    /// The program converted the input, or the conversion stopped early.
    Ran(Run),
    /// The program drew the input, or drawing stopped early.
    Drawn(Result<Outcome, ScriptFault>),
}

/// The result of a conversion.
#[derive(Drop)]
pub struct Run {
    /// The number of skipped objects without a document, or the reason why the conversion stopped early.
    pub(crate) ended: Result<u64, AnswerFault>,
    /// The parser.
    pub(crate) reading: Reading,
    /// The formatter.
    pub(crate) wording: Wording,
}

/// Parses the arguments, and runs the task that the arguments name. The first argument is the program's name.
pub fn run_words<'a, R: ScriptRead, W: ScriptWrite>(
    alloc: Global,
    words: &'a [String],
    reader: &mut R,
    writer: &mut W,
) -> Ended
    ensures runs { RunsWords (map string_bytes words.entry.now) (R.left reader.old) (R.left reader.new)
        (W.held writer.old) (W.held writer.new) result }
    // The clause `took` describes the result and the output for the arguments and the input bytes that were read. By
    // the clause `ended`, a successful run has read the complete input.
    ensures took { (input : List ℕ) × Appends (R.taken reader.old) (R.taken reader.new) input
        × RunsWords (map string_bytes words.entry.now) (Some input) (Some []) (W.held writer.old)
        (W.held writer.new) result }
    ensures ended { IfDone result (R.ended reader.new) }
    ensures counts { EndedCounts result (R.reads reader.old) (R.reads reader.new) (R.failures reader.old)
        (R.failures reader.new) (W.failures writer.old) (W.failures writer.new) }
{
    let task = match read_words(alloc, words) {
        Ok(task) => task,
        Err(why) => return Ended::NotRun(why),
    };
    if let Task::Trees(db, svg) = &task {
        return Ended::Drawn(draw(alloc, db, *svg, reader, writer));
    }
    match wording_of(alloc, &task) {
        Ok(wording) => Ended::Ran(run_task(alloc, &task, wording, reader, writer)),
        Err(refused) => Ended::NotRun(NoTask::from(refused)),
    }
}

/// Draws the output of a script.
fn draw<R: ScriptRead, W: ScriptWrite>(
    alloc: Global,
    db: &Option<String>,
    svg: bool,
    reader: &mut R,
    writer: &mut W,
) -> Result<Outcome, ScriptFault>
    ensures drawn { PicturedBy result (form_of svg) (option_map string_bytes db.now)
        (R.left reader.old) (W.held writer.old) (W.held writer.new) }
    ensures took { (input : List ℕ) × Appends (R.taken reader.old) (R.taken reader.new) input
        × PicturedBy result (form_of svg) (option_map string_bytes db.now) (Some input) (W.held writer.old)
        (W.held writer.new) }
    ensures ended { OnOk result (R.ended reader.new) }
    ensures counts { DrawnCounts result (R.reads reader.old) (R.reads reader.new) (R.failures reader.old)
        (R.failures reader.new) (W.failures writer.old) (W.failures writer.new) }
{
    let form = form_of(svg);
    match db {
        Some(db) => draw_answers(alloc, form, Some(db.as_str()), reader, writer),
        None => draw_answers(alloc, form, None, reader, writer),
    }
}

/// Returns the format (text or SVG) of the picture.
fn form_of(svg: bool) -> Form
    ensures { result ≡ form_of svg }
{
    if svg { Form::Svg } else { Form::Text }
}

/// Returns the kind of items that a task looks for in its input.
fn wanted_of(task: &Task) -> Wanted
    ensures { result ≡ wanted_of task.now }
{
    match task {
        Task::Load(_, false) => Wanted::Documents,
        Task::Load(_, true) => Wanted::Enveloped,
        Task::Ids(_) | Task::Diff(_) => Wanted::Leaves,
        Task::Leaves(_) => Wanted::Changes,
        Task::Bulk(_, false) => Wanted::Bodies,
        Task::Bulk(_, true) => Wanted::Unfolded,
        Task::Trees(_, _) => Wanted::Documents,
    }
}

/// Returns the formatter that writes a task's output.
fn wording_of(alloc: Global, task: &Task) -> Result<Wording, AllocError>
    ensures { IfOk result (λ wording. words_of_wording wording ≡ words_of_task task.now) }
{
    match task {
        Task::Load(db, _) => Wording::loads(alloc, db.as_str()),
        Task::Ids(size) => Wording::asked(alloc, *size),
        Task::Diff(size) => Ok(Wording::diffs(alloc, *size)),
        Task::Leaves(db) => Wording::docs(alloc, db.as_str()),
        Task::Bulk(size, _) => Ok(Wording::bodies(alloc, *size)),
        Task::Trees(_, _) => Ok(Wording::bodies(alloc, 0)),
    }
}

/// Runs a conversion.
fn run_task<R: ScriptRead, W: ScriptWrite>(
    alloc: Global,
    task: &Task,
    mut wording: Wording,
    reader: &mut R,
    writer: &mut W,
) -> Run
    requires words { words_of_wording wording ≡ words_of_task task.now }
    requires lines { is_drawn task.now ≡ false }
    ensures done { IsDone task.now (R.left reader.old) (W.held writer.old) (W.held writer.new) result.ended }
    ensures makes { Makes task.now (R.left reader.old) (W.held writer.old) (W.held writer.new) result.ended }
    ensures took { (input : List ℕ) × Appends (R.taken reader.old) (R.taken reader.new) input
        × IsDone task.now (Some input) (W.held writer.old) (W.held writer.new) result.ended
        × Makes task.now (Some input) (W.held writer.old) (W.held writer.new) result.ended }
    ensures ended { OnOk result.ended (R.ended reader.new) }
    ensures counts { RunCounts result.ended (R.reads reader.old) (R.reads reader.new) (R.failures reader.old)
        (R.failures reader.new) (W.failures writer.old) (W.failures writer.new) }
{
    let mut reading = Reading::new(alloc, wanted_of(task));
    let ended = run_answers(alloc, &mut reading, &mut wording, reader, writer);
    Run {
        ended,
        reading,
        wording,
    }
}
