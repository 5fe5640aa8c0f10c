//! Runs a relay with a given reader as input and a given writer as output.
ghost use Rattle.std.specs.Prelude.{◌≡◌, ◌++◌, ℕ, List, [], ◌==◌, not, length, IfOk, OnOk, OnErr, MatchOption, map, option_map, string_bytes};
ghost use Rattle.std.specs.Str.{IsUtf8};
ghost use Rattle.std.specs.Io.KnownBytes.{Appends, Keeps};
ghost use Rattle.relay_core.specs.Views.{request_view};
ghost use Rattle.couch_relay.specs.Faults.{ReadCounts, RunCounts};
ghost use Rattle.couch_relay.specs.Inbox.{pending, IsInbox, Took};
ghost use Rattle.couch_relay.specs.Runs.{status_after, on_line, on_one_line, AreOptions, ReadsChoice, FindsChoice, EndedCounts, IfRan, Ran, RanUntil, Runs, RunsUntil, RunsWords};

use crate::exchange::{receive, send};
use crate::inbox::Inbox;
use crate::options::{NoOptions, Options, matches_of, options_of};
use json::Scratch;
use relay_core::{Phase, Request, Settings, step};
use relay_requests::{RequestOptions, log_path};
use script_engine::{ScriptFault, ScriptRead, ScriptWrite};
use std::alloc::{AllocError, Global};
use std::str;

/// The result of a run of the program.
#[derive(Drop)]
pub(crate) enum Ended {
    /// The options cannot be read from the arguments, and the program has read and written nothing.
    NotRun(NoOptions),
    /// The exit status of a run, or the fault that stopped the run.
    Ran(Result<u8, ScriptFault>),
}

/// Returns a space for a line feed or carriage return, and any other byte unchanged.
fn on_line(byte: u8) -> u8
    ensures { result ≡ on_line byte }
{
    if byte == 10 || byte == 13 { 32 } else { byte }
}

/// Converts a text to a single line. Line ends become spaces, and white space at the start and end is removed.
fn on_one_line(alloc: Global, text: &str) -> Result<String, AllocError>
    ensures { IfOk result (λ s. string_bytes s ≡ on_one_line text.now) }
{
    let mut line = Vec::new(alloc);
    for byte in text.trim().as_bytes() {
        line.push(on_line(*byte))?;
    }
    match String::from_utf8(line) {
        Ok(line) => Ok(line),
        Err(_) => Err(AllocError),
    }
}

/// Returns the selection of documents in a body, or `None` if the body is not UTF-8.
fn choice_in(alloc: Global, body: &[u8]) -> Result<Option<String>, AllocError>
    ensures { IfOk result (λ o. MatchOption (option_map string_bytes o) (¬ IsUtf8 body.now)
        (λ s. IsUtf8 body.now × (s ≡ on_one_line body.now))) }
{
    match str::from_utf8(body) {
        Ok(text) => {
            let line = on_one_line(alloc, text)?;
            Ok(Some(line))
        }
        Err(_) => Ok(None),
    }
}

/// Reads the selection of documents, which is the first response on the input. Returns `None` if the input has no
/// selection of documents.
fn read_choice<R: ScriptRead>(
    alloc: Global,
    inbox: &mut Inbox,
    reader: &mut R,
) -> Result<Option<String>, ScriptFault>
    requires { IsInbox inbox.old }
    ensures inbox { OnOk result (IsInbox inbox.new) }
    ensures choice { IfOk result (λ o. ReadsChoice (R.taken reader.old) (R.taken reader.new) (R.ended reader.new)
        (pending inbox.old) (pending inbox.new) (option_map string_bytes o)) }
    ensures err { OnErr result (Took (R.taken reader.old) (R.taken reader.new)) }
    ensures counts { ReadCounts result (R.reads reader.new) (R.failures reader.old) (R.failures reader.new) }
{
    let Some(head) = inbox.head(alloc, reader)? else {
        return Ok(None);
    };
    if !inbox.has(reader, head.size)? {
        return Ok(None);
    }
    let choice = choice_in(alloc, inbox.body(head.size))?;
    inbox.take(head.size);
    Ok(choice)
}

/// Returns the settings of a run with the given options.
fn settings_of(alloc: Global, options: &Options<'_>) -> Result<Settings, AllocError>
    ensures session_id { IfOk result (λ s. string_bytes s.session_id ≡ options.now.session_id.now) }
    ensures carry { IfOk result (λ s. s.carry ≡ options.now.carry) }
    ensures every { IfOk result (λ s. s.every ≡ options.now.every) }
    ensures continuous { IfOk result (λ s. s.continuous ≡ options.now.continuous) }
    ensures progress { IfOk result (λ s. s.progress ≡ options.now.progress) }
    ensures filtered { IfOk result (λ s. s.filtered ≡ not (length options.now.filter.now == 0)) }
{
    let session_id = String::from_str(alloc, options.session_id)?;
    Ok(Settings {
        session_id,
        carry: options.carry,
        every: options.every,
        continuous: options.continuous,
        progress: options.progress,
        filtered: !options.filter.is_empty(),
    })
}

/// Returns the options for writing the requests of a run.
fn request_options(
    alloc: Global,
    options: &Options<'_>,
    choice: String,
) -> Result<RequestOptions, AllocError>
    ensures { IfOk result (λ o. AreOptions options.now (string_bytes choice) o) }
{
    let log_path = log_path(
        alloc,
        options.source,
        options.target,
        options.filter,
        options.query,
        choice.as_str(),
        options.salt,
    )?;
    let session_id = String::from_str(alloc, options.session_id)?;
    let filter = String::from_str(alloc, options.filter)?;
    let query = String::from_str(alloc, options.query)?;
    Ok(RequestOptions {
        log_path,
        session_id,
        batch: options.batch,
        filter,
        query,
        choice,
    })
}

/// If the request ends the run, returns the exit status of the run.
fn status_of(request: &Request<'_>) -> Option<u8>
    ensures { result ≡ status_after (request_view request.now) }
{
    match request {
        Request::Done(Some(_), _, _) => Some(3),
        Request::Done(None, counts, _) => Some(if counts.doc_write_failures == 0 { 0 } else { 1 }),
        _ => None,
    }
}

/// Makes requests until the run is over, and returns the exit status. The exit status is 3 if no response to the last
/// request can be read.
///
/// # Errors
///
/// Returns `Read` if the reader failed, or after 2^64 - 1 requests. Returns `Write` if the writer failed. Returns
/// `Memory` if an allocation failed.
fn make_requests<R: ScriptRead, W: ScriptWrite>(
    alloc: Global,
    settings: &Settings,
    requests: &RequestOptions,
    inbox: &mut Inbox,
    reader: &mut R,
    writer: &mut W,
) -> Result<u8, ScriptFault>
    requires { IsInbox inbox.old }
    ensures ok { IfOk result (λ status. (input : List ℕ) × (text : List ℕ)
        × Appends (R.taken reader.old) (R.taken reader.new) input × Appends (W.held writer.old) (W.held writer.new) text
        × Ran requests.now (R.ended reader.new) (pending inbox.old ++ input) text status) }
    ensures sent { OnOk result (Keeps (W.held writer.new) (W.sent writer.new)) }
    ensures err { OnErr result ((input : List ℕ) × (text : List ℕ)
        × Appends (R.taken reader.old) (R.taken reader.new) input × Appends (W.held writer.old) (W.held writer.new) text
        × RanUntil requests.now (pending inbox.old ++ input) text) }
    ensures counts { (text : List ℕ) × Appends (W.held writer.old) (W.held writer.new) text
        × RunCounts result (R.reads reader.new) (R.failures reader.old) (R.failures reader.new)
        (W.failures writer.old) (W.failures writer.new) (length text) }
{
    let mut scratch = Scratch::new(alloc);
    let mut phase = Phase::start(alloc, settings)?;
    for _turn in 0..u64::MAX {
        let request = phase.request();
        send(alloc, requests, &request, writer)?;
        if let Some(status) = status_of(&request) {
            return Ok(status);
        }
        let Some(dated) = receive(alloc, &request, inbox, &mut scratch, reader)? else {
            return Ok(3);
        };
        phase = step(alloc, settings, phase, dated.response, dated.date.as_str())?;
    }
    Err(ScriptFault::Read)
}

/// Reads the selection of documents from the input if the options require a selection. Returns `None` if the input
/// lacks a required selection.
fn choice_of<R: ScriptRead>(
    alloc: Global,
    options: &Options<'_>,
    inbox: &mut Inbox,
    reader: &mut R,
) -> Result<Option<String>, ScriptFault>
    requires { IsInbox inbox.old }
    ensures inbox { OnOk result (IsInbox inbox.new) }
    ensures choice { IfOk result (λ o. FindsChoice options.now (R.taken reader.old) (R.taken reader.new) (R.ended reader.new)
        (pending inbox.old) (pending inbox.new) (option_map string_bytes o)) }
    ensures err { OnErr result (Took (R.taken reader.old) (R.taken reader.new)) }
    ensures counts { ReadCounts result (R.reads reader.new) (R.failures reader.old) (R.failures reader.new) }
{
    if options.choice {
        read_choice(alloc, inbox, reader)
    } else {
        Ok(Some(String::new(alloc)))
    }
}

/// Runs a relay, and returns its exit status.
///
/// # Errors
///
/// Returns `Read` if the reader failed, or after 2^64 - 1 requests. Returns `Write` if the writer failed. Returns
/// `Memory` if an allocation failed. After an error, the output is empty, or has the requests of all complete exchanges
/// and a prefix of one more request. An exchange is a request with its response.
pub(crate) fn run<R: ScriptRead, W: ScriptWrite>(
    alloc: Global,
    options: &Options<'_>,
    reader: &mut R,
    writer: &mut W,
) -> Result<u8, ScriptFault>
    ensures ok { IfOk result (λ status. (input : List ℕ) × (text : List ℕ)
        × Appends (R.taken reader.old) (R.taken reader.new) input × Appends (W.held writer.old) (W.held writer.new) text
        × Runs options.now (R.ended reader.new) input text status) }
    ensures sent { Keeps (W.held writer.old) (W.sent writer.old) → OnOk result (Keeps (W.held writer.new) (W.sent writer.new)) }
    ensures err { OnErr result ((input : List ℕ) × (text : List ℕ)
        × Appends (R.taken reader.old) (R.taken reader.new) input × Appends (W.held writer.old) (W.held writer.new) text
        × RunsUntil options.now input text) }
    ensures counts { (text : List ℕ) × Appends (W.held writer.old) (W.held writer.new) text
        × RunCounts result (R.reads reader.new) (R.failures reader.old) (R.failures reader.new)
        (W.failures writer.old) (W.failures writer.new) (length text) }
{
    let mut inbox = Inbox::new(alloc)?;
    let Some(choice) = choice_of(alloc, options, &mut inbox, reader)? else {
        return Ok(3);
    };
    let settings = settings_of(alloc, options)?;
    let requests = request_options(alloc, options, choice)?;
    make_requests(alloc, &settings, &requests, &mut inbox, reader, writer)
}

/// Parses the program's arguments, and runs `couch_relay` with the options that the arguments give. The first argument
/// is the program's name.
pub(crate) fn run_words<R: ScriptRead, W: ScriptWrite>(
    alloc: Global,
    words: &[String],
    reader: &mut R,
    writer: &mut W,
) -> Ended
    ensures runs { (input : List ℕ) × (text : List ℕ)
        × Appends (R.taken reader.old) (R.taken reader.new) input × Appends (W.held writer.old) (W.held writer.new) text
        × RunsWords (map string_bytes words.now) (R.ended reader.new) input text result }
    ensures sent { Keeps (W.held writer.old) (W.sent writer.old) → IfRan result (Keeps (W.held writer.new) (W.sent writer.new)) }
    ensures counts { (text : List ℕ) × Appends (W.held writer.old) (W.held writer.new) text
        × EndedCounts result (R.reads reader.new) (R.failures reader.old) (R.failures reader.new)
        (W.failures writer.old) (W.failures writer.new) (length text) }
{
    let matches = match matches_of(alloc, words) {
        Ok(matches) => matches,
        Err(why) => return Ended::NotRun(why),
    };
    match options_of(&matches) {
        Ok(options) => Ended::Ran(run(alloc, &options, reader, writer)),
        Err(why) => Ended::NotRun(why),
    }
}
