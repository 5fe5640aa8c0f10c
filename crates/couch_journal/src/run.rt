//! Runs the program's tasks over any reader and writer.
ghost use Rattle.std.specs.Prelude.{◌≡◌, ◌++◌, ℕ, List, Err, IfOk, IfErr, OnErr, OnOk, is_some, map, option_map, string_bytes};
ghost use Rattle.std.specs.Io.KnownBytes.{Appends};
ghost use Rattle.json.specs.Value.{value_view};
ghost use Rattle.script_engine.specs.Device.{FailsOnce};
ghost use Rattle.script_engine.specs.Faults.{IsFaultOf};
ghost use Rattle.script_engine.specs.declared.fault.ScriptFault.{ScriptFault};
ghost use Rattle.script_engine.specs.declared.fault.ScriptFault.TheVariants.{Memory, Write};
ghost use Rattle.couch_journal.specs.declared.ended.Ended.TheVariants.{Ran};
ghost use Rattle.journal_responses.specs.Responses.{IsOther, IsSaid};
ghost use Rattle.journal_tasks.specs.Selecting.{choice_of};
ghost use Rattle.couch_journal.specs.Status.{missing_or_done};
ghost use Rattle.couch_journal.specs.Runs.{choice_in, IsNotShown, IsShown, RunsAsk, RunsCompare, RunsConfirm, RunsConflicts, RunsDiff, RunsLacking, RunsName, RunsParts, RunsReceived, RunsResponse, RunsSeal, RunsSelect, RunsStates, RunsTask, RunsWords, Shows, ShowsNothing};

use crate::ended::{
    Ended, Outcome, confirm_outcome, damaged_or, differs_or, missing_or_done, other_or_done,
    wrong_or,
};
use crate::options::{NoTask, Options, matches_of, options_of};
use crate::tasks::{Task, task_of};
use journal_core::seal_block;
use journal_responses::{Said, info_of, page_of, read_said, refused_of};
use journal_tasks::{
    Filter, ask_leaves, compare_lists, confirm_journal, diff_leaves, lacking_leaves, last_states,
    list_conflicts, name_leaves, receive_leaves, select_lines, split_lines,
};
use json::{Scratch, Value};
use line_reader::read_all;
use script_engine::{ScriptFault, ScriptRead, ScriptWrite, write_all};
use std::alloc::Global;

/// The kind of a response that a task reads completely.
#[derive(Clone, Copy)]
enum Response {
    Page(bool),
    Refused,
    Info,
}

/// Appends to `text` the output for a page of changes.
fn show_page(
    alloc: Global,
    several: bool,
    value: &Value<'_>,
    text: &mut Vec<u8>,
) -> Result<bool, Said>
    ensures ok { IfOk result (λ refused. (shown : List ℕ) × (text.new.items ≡ text.old.items ++ shown)
        × Shows (Response.Page several) (value_view value.now) shown refused) }
    ensures err { IfErr result (λ said. IsOther said → ShowsNothing (Response.Page several) (value_view value.now)) }
    ensures said { IfErr result (IsSaid (value_view value.now)) }
{
    match page_of(alloc, text, several, value) {
        Ok(()) => Ok(false),
        Err(said) => Err(said),
    }
}

/// Appends to `text` the output for a response of `_bulk_docs`. Returns whether a document was rejected.
fn show_refused(alloc: Global, value: &Value<'_>, text: &mut Vec<u8>) -> Result<bool, Said>
    ensures ok { IfOk result (λ refused. (shown : List ℕ) × (text.new.items ≡ text.old.items ++ shown)
        × Shows Response.Refused (value_view value.now) shown refused) }
    ensures err { IfErr result (λ said. IsOther said → ShowsNothing Response.Refused (value_view value.now)) }
    ensures said { IfErr result (IsSaid (value_view value.now)) }
{
    match refused_of(alloc, text, value) {
        Ok(refused) => Ok(refused),
        Err(said) => Err(said),
    }
}

/// Appends to `text` the output for a description of a server or a database.
fn show_info(alloc: Global, value: &Value<'_>, text: &mut Vec<u8>) -> Result<bool, Said>
    ensures ok { IfOk result (λ refused. (shown : List ℕ) × (text.new.items ≡ text.old.items ++ shown)
        × Shows Response.Info (value_view value.now) shown refused) }
    ensures err { IfErr result (λ said. IsOther said → ShowsNothing Response.Info (value_view value.now)) }
    ensures said { IfErr result (IsSaid (value_view value.now)) }
{
    match info_of(alloc, text, value) {
        Ok(()) => Ok(false),
        Err(said) => Err(said),
    }
}

/// Appends to `text` the output for a JSON value. Returns true if the value reports a rejected document.
///
/// # Errors
///
/// Returns `Error` or `Other` if the JSON value is not a response of the kind `response`. Returns `Memory` if an
/// allocation failed.
fn show(
    alloc: Global,
    response: Response,
    value: &Value<'_>,
    text: &mut Vec<u8>,
) -> Result<bool, Said>
    ensures ok { IfOk result (λ refused. (shown : List ℕ) × (text.new.items ≡ text.old.items ++ shown)
        × Shows response (value_view value.now) shown refused) }
    ensures err { IfErr result (λ said. IsOther said → ShowsNothing response (value_view value.now)) }
    ensures said { IfErr result (IsSaid (value_view value.now)) }
{
    match response {
        Response::Page(several) => show_page(alloc, several, value, text),
        Response::Info => show_info(alloc, value, text),
        Response::Refused => show_refused(alloc, value, text),
    }
}

/// Appends to `text` the output for a response. Returns true if the response reports a rejected document.
///
/// # Errors
///
/// Returns `NotJson`, `Error` or `Other` if the body is not a response of the kind `response`. Returns `Memory` if an
/// allocation failed.
fn read_response(
    alloc: Global,
    response: Response,
    body: &[u8],
    text: &mut Vec<u8>,
) -> Result<bool, Said>
    ensures ok { IfOk result (λ refused. (shown : List ℕ) × (text.new.items ≡ text.old.items ++ shown)
        × IsShown response body.now shown refused) }
    ensures err { IfErr result (IsNotShown response body.now) }
{
    let mut scratch = Scratch::new(alloc);
    match read_said(alloc, &mut scratch, body) {
        Ok(value) => show(alloc, response, &value, text),
        Err(said) => Err(said),
    }
}

/// Writes the output for a response, and returns the outcome of the task that read the response.
fn write_shown<W: ScriptWrite>(
    writer: &mut W,
    text: &[u8],
    refused: bool,
) -> Result<Outcome, ScriptFault>
    ensures ok { IfOk result (λ outcome. Appends (W.held writer.old) (W.held writer.new) text.now
        × (outcome ≡ missing_or_done refused)) }
    ensures err { OnErr result ((front : List ℕ) × (back : List ℕ) × (text.now ≡ front ++ back)
        × Appends (W.held writer.old) (W.held writer.new) front
        × FailsOnce (W.failures writer.old) (W.failures writer.new)) }
    ensures fault { IfErr result (λ fault. fault ≡ Write) }
{
    match write_all(writer, text) {
        Ok(()) => Ok(missing_or_done(refused)),
        Err(fault) => Err(fault),
    }
}

/// Reads a response, and writes the contents of the response as lines.
fn run_response<R: ScriptRead, W: ScriptWrite>(
    alloc: Global,
    response: Response,
    reader: &mut R,
    writer: &mut W,
) -> Result<Outcome, ScriptFault>
    ensures ran { (input text : List ℕ) × Appends (R.taken reader.old) (R.taken reader.new) input
        × Appends (W.held writer.old) (W.held writer.new) text
        × RunsResponse response (R.ended reader.new) input text result }
    ensures fault { IfErr result (λ fault. IsFaultOf fault (R.reads reader.old) (R.reads reader.new)
        (R.failures reader.old) (R.failures reader.new) (W.failures writer.old) (W.failures writer.new)) }
{
    let body = match read_all(alloc, reader) {
        Ok(body) => body,
        Err(fault) => return Err(fault),
    };
    let mut text = Vec::new(alloc);
    match read_response(alloc, response, body.as_slice(), &mut text) {
        Ok(refused) => write_shown(writer, text.as_slice(), refused),
        Err(said) => Ok(Outcome::Said(said)),
    }
}

/// Seals a block, and writes the line that ends it.
fn run_seal<R: ScriptRead, W: ScriptWrite>(
    alloc: Global,
    chain: &str,
    seq: &str,
    reader: &mut R,
    writer: &mut W,
) -> Result<Outcome, ScriptFault>
    ensures ran { (input text : List ℕ) × Appends (R.taken reader.old) (R.taken reader.new) input
        × Appends (W.held writer.old) (W.held writer.new) text
        × RunsSeal chain.now seq.now (R.ended reader.new) input text result }
    ensures fault { IfErr result (λ fault. IsFaultOf fault (R.reads reader.old) (R.reads reader.new)
        (R.failures reader.old) (R.failures reader.new) (W.failures writer.old) (W.failures writer.new)) }
{
    let wrong = match seal_block(alloc, chain.as_bytes(), seq.as_bytes(), reader, writer) {
        Ok(wrong) => wrong,
        Err(fault) => return Err(fault),
    };
    let Some(lines) = wrong else {
        return Ok(Outcome::Done);
    };
    match lines.checked_add(1) {
        Some(line) => Ok(Outcome::Wrong(line)),
        None => Err(ScriptFault::Memory),
    }
}

/// Returns a sequence as bytes, if one is given.
fn bytes_of(at: Option<&str>) -> Option<&[u8]>
    ensures { option_map (λ at. at.now) result ≡ option_map (λ at. at.now) at.entry }
{
    match at {
        Some(at) => Some(at.as_bytes()),
        None => None,
    }
}

/// Whether a sequence is given.
fn has_seq(at: Option<&[u8]>) -> bool
    ensures { result ≡ is_some (option_map (λ at. at.now) at.entry) }
{
    match at {
        Some(_) => true,
        None => false,
    }
}

/// Prints how much of a journal the journal's checksums confirm. If a sequence is given, the report ends at the last
/// block of this sequence.
fn run_confirmed<R: ScriptRead, W: ScriptWrite>(
    alloc: Global,
    at: Option<&[u8]>,
    reader: &mut R,
    writer: &mut W,
) -> Result<Outcome, ScriptFault>
    ensures ran { (input text : List ℕ) × Appends (R.taken reader.old) (R.taken reader.new) input
        × Appends (W.held writer.old) (W.held writer.new) text
        × RunsConfirm (option_map (λ at. at.now) at.entry) (R.ended reader.new) input text result }
    ensures fault { IfErr result (λ fault. IsFaultOf fault (R.reads reader.old) (R.reads reader.new)
        (R.failures reader.old) (R.failures reader.new) (W.failures writer.old) (W.failures writer.new)) }
{
    let given = has_seq(at);
    match confirm_journal(alloc, at, reader, writer) {
        Ok(task) => {
            let sure = task.is_confirmed();
            Ok(confirm_outcome(
                task.is_not_found(),
                given | sure,
                task.is_without_sums(),
                task.confirmed_lines(),
            ))
        }
        Err(fault) => Err(fault),
    }
}

/// Prints how much of a journal the journal's checksums confirm.
fn run_confirm<R: ScriptRead, W: ScriptWrite>(
    alloc: Global,
    at: Option<&str>,
    reader: &mut R,
    writer: &mut W,
) -> Result<Outcome, ScriptFault>
    ensures ran { (input text : List ℕ) × Appends (R.taken reader.old) (R.taken reader.new) input
        × Appends (W.held writer.old) (W.held writer.new) text
        × RunsConfirm (option_map (λ at. at.now) at.entry) (R.ended reader.new) input text result }
    ensures fault { IfErr result (λ fault. IsFaultOf fault (R.reads reader.old) (R.reads reader.new)
        (R.failures reader.old) (R.failures reader.new) (W.failures writer.old) (W.failures writer.new)) }
{
    run_confirmed(alloc, bytes_of(at), reader, writer)
}

/// Prints the last state of each document of a journal. If `unverified` is true, the task ignores the journal's
/// checksums.
fn run_states<R: ScriptRead, W: ScriptWrite>(
    alloc: Global,
    unverified: bool,
    reader: &mut R,
    writer: &mut W,
) -> Result<Outcome, ScriptFault>
    ensures ran { (input text : List ℕ) × Appends (R.taken reader.old) (R.taken reader.new) input
        × Appends (W.held writer.old) (W.held writer.new) text
        × RunsStates unverified (R.ended reader.new) input text result }
    ensures fault { IfErr result (λ fault. IsFaultOf fault (R.reads reader.old) (R.reads reader.new)
        (R.failures reader.old) (R.failures reader.new) (W.failures writer.old) (W.failures writer.new)) }
{
    match last_states(alloc, unverified, reader, writer) {
        Ok(task) => {
            let otherwise = wrong_or(task.wrong(), Outcome::Done);
            Ok(damaged_or(task.is_damaged(), task.confirmed_lines(), otherwise))
        }
        Err(fault) => Err(fault),
    }
}

/// Returns the filter that the options of the task `select` describe.
fn filter_of(alloc: Global, options: &Options<'_>) -> Result<Filter, ScriptFault>
    ensures filter { IfOk result (λ filter. (size : ℕ) → choice_of size filter ≡ choice_in size options.now) }
    ensures fault { IfErr result (λ fault. fault ≡ Memory) }
{
    let id = match options.doc {
        Some(id) => Some(String::from_str(alloc, id)?),
        None => None,
    };
    Ok(Filter {
        id,
        several: options.several,
        unverified: options.unverified,
    })
}

/// Reads two copies of a journal of `size` bytes, and prints the lines with the leaves in the last states of the selected
/// documents.
fn run_filtered<R: ScriptRead, W: ScriptWrite>(
    alloc: Global,
    size: u64,
    filter: Filter,
    reader: &mut R,
    writer: &mut W,
) -> Result<Outcome, ScriptFault>
    ensures ran { (input text : List ℕ) × Appends (R.taken reader.old) (R.taken reader.new) input
        × Appends (W.held writer.old) (W.held writer.new) text
        × RunsSelect (choice_of size filter) (R.ended reader.new) input text result }
    ensures fault { IfErr result (λ fault. IsFaultOf fault (R.reads reader.old) (R.reads reader.new)
        (R.failures reader.old) (R.failures reader.new) (W.failures writer.old) (W.failures writer.new)) }
{
    match select_lines(alloc, size, filter, reader, writer) {
        Ok(task) => {
            let found = differs_or(task.differs(), missing_or_done(task.lacks()));
            let otherwise = wrong_or(task.wrong(), found);
            Ok(damaged_or(task.is_damaged(), task.confirmed_lines(), otherwise))
        }
        Err(fault) => Err(fault),
    }
}

/// Reads two copies of a journal of `size` bytes, and prints the lines with the leaves in the last states of the
/// documents that the options select.
fn run_select<R: ScriptRead, W: ScriptWrite>(
    alloc: Global,
    size: u64,
    options: &Options<'_>,
    reader: &mut R,
    writer: &mut W,
) -> Result<Outcome, ScriptFault>
    ensures ran { (input text : List ℕ) × Appends (R.taken reader.old) (R.taken reader.new) input
        × Appends (W.held writer.old) (W.held writer.new) text
        × RunsSelect (choice_in size options.now) (R.ended reader.new) input text result }
    ensures fault { IfErr result (λ fault. IsFaultOf fault (R.reads reader.old) (R.reads reader.new)
        (R.failures reader.old) (R.failures reader.new) (W.failures writer.old) (W.failures writer.new)) }
{
    match filter_of(alloc, options) {
        Ok(filter) => run_filtered(alloc, size, filter, reader, writer),
        Err(fault) => Err(fault),
    }
}

/// Reads the requested leaves and the received documents. Prints the requested documents and says which leaves were
/// received. If `only_lacks` is true, prints only the leaves that were not received.
fn run_received<R: ScriptRead, W: ScriptWrite>(
    alloc: Global,
    only_lacks: bool,
    reader: &mut R,
    writer: &mut W,
) -> Result<Outcome, ScriptFault>
    ensures ran { (input text : List ℕ) × Appends (R.taken reader.old) (R.taken reader.new) input
        × Appends (W.held writer.old) (W.held writer.new) text
        × RunsReceived only_lacks (R.ended reader.new) input text result }
    ensures fault { IfErr result (λ fault. IsFaultOf fault (R.reads reader.old) (R.reads reader.new)
        (R.failures reader.old) (R.failures reader.new) (W.failures writer.old) (W.failures writer.new)) }
{
    match receive_leaves(alloc, only_lacks, reader, writer) {
        Ok(task) => Ok(wrong_or(task.wrong(), missing_or_done(task.lacks()))),
        Err(fault) => Err(fault),
    }
}

/// Prints a `_bulk_get` request for the leaves of a list.
fn run_ask<R: ScriptRead, W: ScriptWrite>(
    alloc: Global,
    reader: &mut R,
    writer: &mut W,
) -> Result<Outcome, ScriptFault>
    ensures ran { (input text : List ℕ) × Appends (R.taken reader.old) (R.taken reader.new) input
        × Appends (W.held writer.old) (W.held writer.new) text
        × RunsAsk (R.ended reader.new) input text result }
    ensures fault { IfErr result (λ fault. IsFaultOf fault (R.reads reader.old) (R.reads reader.new)
        (R.failures reader.old) (R.failures reader.new) (W.failures writer.old) (W.failures writer.new)) }
{
    match ask_leaves(alloc, reader, writer) {
        Ok(task) => Ok(wrong_or(task.wrong(), Outcome::Done)),
        Err(fault) => Err(fault),
    }
}

/// Reads a list of leaves and the response of `_revs_diff`, and prints the missing leaves.
fn run_lacking<R: ScriptRead, W: ScriptWrite>(
    alloc: Global,
    reader: &mut R,
    writer: &mut W,
) -> Result<Outcome, ScriptFault>
    ensures ran { (input text : List ℕ) × Appends (R.taken reader.old) (R.taken reader.new) input
        × Appends (W.held writer.old) (W.held writer.new) text
        × RunsLacking (R.ended reader.new) input text result }
    ensures fault { IfErr result (λ fault. IsFaultOf fault (R.reads reader.old) (R.reads reader.new)
        (R.failures reader.old) (R.failures reader.new) (W.failures writer.old) (W.failures writer.new)) }
{
    match lacking_leaves(alloc, reader, writer) {
        Ok(task) => Ok(wrong_or(task.wrong(), other_or_done(task.is_refused()))),
        Err(fault) => Err(fault),
    }
}

/// Prints a `_revs_diff` request for the leaves of a list.
fn run_diff<R: ScriptRead, W: ScriptWrite>(
    alloc: Global,
    reader: &mut R,
    writer: &mut W,
) -> Result<Outcome, ScriptFault>
    ensures ran { (input text : List ℕ) × Appends (R.taken reader.old) (R.taken reader.new) input
        × Appends (W.held writer.old) (W.held writer.new) text
        × RunsDiff (R.ended reader.new) input text result }
    ensures fault { IfErr result (λ fault. IsFaultOf fault (R.reads reader.old) (R.reads reader.new)
        (R.failures reader.old) (R.failures reader.new) (W.failures writer.old) (W.failures writer.new)) }
{
    match diff_leaves(alloc, reader, writer) {
        Ok(task) => Ok(wrong_or(task.wrong(), Outcome::Done)),
        Err(fault) => Err(fault),
    }
}

/// Prints the input's lines in parts of at most `bytes` bytes and `lines` lines. If a single line exceeds a maximum,
/// the task prints the line as a separate part.
fn run_parts<R: ScriptRead, W: ScriptWrite>(
    alloc: Global,
    bytes: u64,
    lines: u64,
    reader: &mut R,
    writer: &mut W,
) -> Result<Outcome, ScriptFault>
    ensures ran { (input text : List ℕ) × Appends (R.taken reader.old) (R.taken reader.new) input
        × Appends (W.held writer.old) (W.held writer.new) text
        × RunsParts (bytes, lines) (R.ended reader.new) input text result }
    ensures fault { IfErr result (λ fault. IsFaultOf fault (R.reads reader.old) (R.reads reader.new)
        (R.failures reader.old) (R.failures reader.new) (W.failures writer.old) (W.failures writer.new)) }
{
    match split_lines(alloc, bytes, lines, reader, writer) {
        Ok(task) => Ok(wrong_or(task.wrong(), Outcome::Done)),
        Err(fault) => Err(fault),
    }
}

/// Prints a line for each leaf of a list. Each line begins with `word`.
fn run_named<R: ScriptRead, W: ScriptWrite>(
    alloc: Global,
    word: String,
    reader: &mut R,
    writer: &mut W,
) -> Result<Outcome, ScriptFault>
    ensures ran { (input text : List ℕ) × Appends (R.taken reader.old) (R.taken reader.new) input
        × Appends (W.held writer.old) (W.held writer.new) text
        × RunsName (string_bytes word) (R.ended reader.new) input text result }
    ensures fault { IfErr result (λ fault. IsFaultOf fault (R.reads reader.old) (R.reads reader.new)
        (R.failures reader.old) (R.failures reader.new) (W.failures writer.old) (W.failures writer.new)) }
{
    match name_leaves(alloc, word, reader, writer) {
        Ok(task) => Ok(wrong_or(task.wrong(), Outcome::Done)),
        Err(fault) => Err(fault),
    }
}

/// Prints a line for each leaf of a list.
fn run_name<R: ScriptRead, W: ScriptWrite>(
    alloc: Global,
    word: &str,
    reader: &mut R,
    writer: &mut W,
) -> Result<Outcome, ScriptFault>
    ensures ran { (input text : List ℕ) × Appends (R.taken reader.old) (R.taken reader.new) input
        × Appends (W.held writer.old) (W.held writer.new) text
        × RunsName word.now (R.ended reader.new) input text result }
    ensures fault { IfErr result (λ fault. IsFaultOf fault (R.reads reader.old) (R.reads reader.new)
        (R.failures reader.old) (R.failures reader.new) (W.failures writer.old) (W.failures writer.new)) }
{
    match String::from_str(alloc, word) {
        Ok(word) => run_named(alloc, word, reader, writer),
        Err(_) => Err(ScriptFault::Memory),
    }
}

/// Compares two lists of leaves, and prints leaves that only the second list has.
fn run_compare<R: ScriptRead, W: ScriptWrite>(
    alloc: Global,
    documents: bool,
    reader: &mut R,
    writer: &mut W,
) -> Result<Outcome, ScriptFault>
    ensures ran { (input text : List ℕ) × Appends (R.taken reader.old) (R.taken reader.new) input
        × Appends (W.held writer.old) (W.held writer.new) text
        × RunsCompare documents (R.ended reader.new) input text result }
    ensures fault { IfErr result (λ fault. IsFaultOf fault (R.reads reader.old) (R.reads reader.new)
        (R.failures reader.old) (R.failures reader.new) (W.failures writer.old) (W.failures writer.new)) }
{
    match compare_lists(alloc, documents, reader, writer) {
        Ok(task) => Ok(wrong_or(task.wrong(), Outcome::Done)),
        Err(fault) => Err(fault),
    }
}

/// Prints the documents with two or more live leaves.
fn run_conflicts<R: ScriptRead, W: ScriptWrite>(
    alloc: Global,
    reader: &mut R,
    writer: &mut W,
) -> Result<Outcome, ScriptFault>
    ensures ran { (input text : List ℕ) × Appends (R.taken reader.old) (R.taken reader.new) input
        × Appends (W.held writer.old) (W.held writer.new) text
        × RunsConflicts (R.ended reader.new) input text result }
    ensures fault { IfErr result (λ fault. IsFaultOf fault (R.reads reader.old) (R.reads reader.new)
        (R.failures reader.old) (R.failures reader.new) (W.failures writer.old) (W.failures writer.new)) }
{
    match list_conflicts(alloc, reader, writer) {
        Ok(task) => Ok(wrong_or(task.wrong(), Outcome::Done)),
        Err(fault) => Err(fault),
    }
}

/// Runs a task with its arguments and options, and returns the outcome.
///
/// # Errors
///
/// Returns `Read` if the reader failed, or after 4,294,967,295 reads of at most 65,536 bytes. Returns `Write` if the
/// writer failed. Returns `Memory` if an allocation failed, or if a count is at its maximum.
fn run<R: ScriptRead, W: ScriptWrite>(
    alloc: Global,
    task: &Task<'_>,
    options: &Options<'_>,
    reader: &mut R,
    writer: &mut W,
) -> Result<Outcome, ScriptFault>
    ensures ran { (input text : List ℕ) × Appends (R.taken reader.old) (R.taken reader.new) input
        × Appends (W.held writer.old) (W.held writer.new) text
        × RunsTask task.now options.now (R.ended reader.new) input text result }
    ensures fault { IfErr result (λ fault. IsFaultOf fault (R.reads reader.old) (R.reads reader.new)
        (R.failures reader.old) (R.failures reader.new) (W.failures writer.old) (W.failures writer.new)) }
{
    match task {
        Task::Page(several) => run_response(alloc, Response::Page(*several), reader, writer),
        Task::Refused => run_response(alloc, Response::Refused, reader, writer),
        Task::Info => run_response(alloc, Response::Info, reader, writer),
        Task::Seal(chain, seq) => run_seal(alloc, *chain, *seq, reader, writer),
        Task::Confirm(at) => run_confirm(alloc, *at, reader, writer),
        Task::States(unverified) => run_states(alloc, *unverified, reader, writer),
        Task::Select(size) => run_select(alloc, *size, options, reader, writer),
        Task::Received(only_lacks) => run_received(alloc, *only_lacks, reader, writer),
        Task::Lacking => run_lacking(alloc, reader, writer),
        Task::Ask => run_ask(alloc, reader, writer),
        Task::Diff => run_diff(alloc, reader, writer),
        Task::Parts(bytes, lines) => run_parts(alloc, *bytes, *lines, reader, writer),
        Task::Name(word) => run_name(alloc, *word, reader, writer),
        Task::Compare(documents) => run_compare(alloc, *documents, reader, writer),
        Task::Conflicts => run_conflicts(alloc, reader, writer),
    }
}

/// Parses the arguments, and runs the task that the arguments name. The first argument is the program's name.
pub(crate) fn run_words<R: ScriptRead, W: ScriptWrite>(
    alloc: Global,
    words: &[String],
    reader: &mut R,
    writer: &mut W,
) -> Ended
    ensures ran { (input text : List ℕ) × Appends (R.taken reader.old) (R.taken reader.new) input
        × Appends (W.held writer.old) (W.held writer.new) text
        × RunsWords (map string_bytes words.now) (R.ended reader.new) input text result }
    ensures fault { (fault : ScriptFault) → result ≡ Ran (Err fault) → IsFaultOf fault (R.reads reader.old)
        (R.reads reader.new) (R.failures reader.old) (R.failures reader.new) (W.failures writer.old)
        (W.failures writer.new) }
{
    let matches = match matches_of(alloc, words) {
        Ok(matches) => matches,
        Err(why) => return Ended::NotRun(why),
    };
    let options = options_of(&matches);
    match task_of(&options) {
        Some(task) => Ended::Ran(run(alloc, &task, &options, reader, writer)),
        None => Ended::NotRun(NoTask::Unknown),
    }
}
