//! Reads responses from a reader, and writes their contents to a writer.
ghost use Rattle.std.specs.Prelude.{◌≡◌, ◌<◌, ◌≤◌, ◌==◌, ℕ, List, [], length, nat_eq, take, Some, Err, IfOk, OnOk, IfErr, true, false};
ghost use Rattle.std.specs.Io.KnownBytes.{Appends, IsAtEnd};
ghost use Rattle.script_engine.specs.Chunks.{AreChunks};
ghost use Rattle.script_engine.specs.Faults.{IsOfWriter};
ghost use Rattle.std.specs.List.{starts_with};
ghost use Rattle.response_parser.specs.Stored.{front_length_of, front_of, state_of};
ghost use Rattle.response_output.specs.Stored.{made_of, words_of_wording};
ghost use Rattle.response_parser.specs.Wanted.{wants_documents, is_strict};
ghost use Rattle.response_parser.specs.declared.place.Wanted.TheVariants.{Changes, Leaves};
ghost use Rattle.response_parser.specs.declared.place.Found.TheVariants.{Document};
ghost use Rattle.response_parser.specs.State.{State, start};
ghost use Rattle.response_parser.specs.Reading.{Piece, given, last_end};
ghost use Rattle.response_parser.specs.Grammar.{IsAnswered};
ghost use Rattle.response_parser.specs.LineGrammar.{IsScript};
ghost use Rattle.response_parser.specs.ChangeGrammar.{IsChangeScript};
ghost use Rattle.response_parser.specs.FeedGrammar.{AreLeaves};
ghost use Rattle.response_output.specs.Words.{part_text, rest_text, texts, with_document, words_behind};
ghost use Rattle.script_engine.specs.declared.fault.ScriptFault.TheVariants.{Memory};
ghost use Rattle.response_output.specs.declared.run.AnswerFault.TheVariants.{Device};
ghost use Rattle.response_output.specs.Runs.{Feeds, Tracks, Breaks, RestBreaks, WritesInPart, EndsAnswers, Finishes, Answered, Stopped, Converts, CountsOf, CountsOfWriter, ReadsAnswers, ended_of};

use crate::wording::Wording;
use response_parser::{Found, Front, Reading, Refusal};
use script_engine::{Chunks, ScriptFault, ScriptRead, ScriptWrite, write_all};
use std::alloc::{AllocError, Global};
use thiserror::Error;

/// The maximum number of bytes that the parser reads at once. After at most `PART` bytes, the loop checks again whether
/// the next bytes form a run, which the parser does not store.
const PART: usize = 4_096;

/// Why reading stopped early.
#[derive(Debug, Drop, Error)]
pub enum AnswerFault {
    /// The parser rejected the input. The field `at` is the number of bytes that the parser read, including the
    /// rejected byte.
    #[error("refused: {why} at byte {at}")]
    Refused { why: Refusal, at: u64 },
    /// A long document has a member `_id`, `_rev`, `_revisions` or `_deleted` after an attachment. The call returns the
    /// error when the document ends. The field `at` is the number of bytes that the parser read.
    #[error("refused: LateMember at byte {at}")]
    LateMember { at: u64 },
    /// The reader, the writer or an allocation failed.
    #[error("{fault}")]
    Device { fault: ScriptFault },
}

impl From<ScriptFault> for AnswerFault {
    ghost from_gives = { λ fault e. e ≡ Device fault };

    fn from(fault: ScriptFault) -> AnswerFault {
        AnswerFault::Device { fault }
    }
}

impl From<AllocError> for AnswerFault {
    ghost from_gives = { λ _ e. e ≡ Device Memory };

    fn from(refused: AllocError) -> AnswerFault {
        AnswerFault::Device {
            fault: ScriptFault::from(refused),
        }
    }
}

/// Writes the text that the formatter formatted last.
fn write_text<W: ScriptWrite>(wording: &Wording, writer: &mut W) -> Result<(), ScriptFault>
    ensures ok { OnOk result (Appends (W.held writer.old) (W.held writer.new) (made_of wording.now)
        × (W.failures writer.new ≡ W.failures writer.old)) }
    ensures err { IfErr result (λ fault. WritesInPart fault (made_of wording.now) (W.held writer.old)
        (W.held writer.new)) }
    ensures fault { IfErr result (λ fault. IsOfWriter fault (W.failures writer.old) (W.failures writer.new)) }
{
    match write_all(writer, wording.text()) {
        Ok(()) => Ok(()),
        Err(fault) => Err(fault),
    }
}

/// Writes the item that the last byte of the response completed.
fn tell<W: ScriptWrite>(
    reading: &Reading,
    wording: &mut Wording,
    writer: &mut W,
) -> Result<(), ScriptFault>
    ensures written { OnOk result (Appends (W.held writer.old) (W.held writer.new)
        (texts (words_of_wording wording.old) (given (state_of reading.now)))) }
    ensures words { OnOk result (words_of_wording wording.new
        ≡ words_behind (words_of_wording wording.old) (given (state_of reading.now))) }
    ensures counted { OnOk result (W.failures writer.new ≡ W.failures writer.old) }
    ensures err { IfErr result (λ fault. WritesInPart fault
        (texts (words_of_wording wording.old) (given (state_of reading.now))) (W.held writer.old)
        (W.held writer.new)) }
    ensures fault { IfErr result (λ fault. IsOfWriter fault (W.failures writer.old) (W.failures writer.new)) }
{
    wording.put(reading.found(), reading.text())?;
    match write_text(wording, writer) {
        Ok(()) => Ok(()),
        Err(fault) => Err(fault),
    }
}

/// Writes the rest of a long document after the parser has read the document's last byte.
fn tell_rest<W: ScriptWrite>(
    reading: &Reading,
    front: &mut Front,
    wording: &mut Wording,
    writer: &mut W,
) -> Result<(), AnswerFault>
    ensures begins { OnOk result
        (starts_with nat_eq (state_of reading.now).text (front_of front.old) ≡ true) }
    ensures ended { OnOk result (front_of front.new ≡ []) }
    ensures written { OnOk result (Appends (W.held writer.old) (W.held writer.new)
        (rest_text (words_of_wording wording.old) (state_of reading.now).text (length (front_of front.old)))) }
    ensures words { OnOk result (words_of_wording wording.new
        ≡ with_document (words_of_wording wording.old) (state_of reading.now).text) }
    ensures counted { OnOk result (W.failures writer.new ≡ W.failures writer.old) }
    ensures err { IfErr result (λ fault. RestBreaks fault (state_of reading.now) (words_of_wording wording.old)
        (front_of front.old) (W.held writer.old) (W.held writer.new)) }
    ensures fault { IfErr result (λ fault. CountsOfWriter (Err fault) (W.failures writer.old)
        (W.failures writer.new)) }
{
    if !reading.text().starts_with(front.text()) {
        return Err(AnswerFault::LateMember {
            at: reading.taken(),
        });
    }
    wording.put_rest(reading.text(), front.text().len())?;
    front.end();
    match write_text(wording, writer) {
        Ok(()) => Ok(()),
        Err(fault) => Err(AnswerFault::Device { fault }),
    }
}

/// Writes the front without its first `told` bytes, which were already written. The front is the output for the
/// beginning of a long document. After the front, the call writes `run`: bytes of the document that the parser did not
/// store.
fn tell_run<W: ScriptWrite>(
    front: &Front,
    told: usize,
    run: &[u8],
    wording: &mut Wording,
    writer: &mut W,
) -> Result<(), ScriptFault>
    requires { told ≤ length (front_of front.now) }
    ensures written { OnOk result (Appends (W.held writer.old) (W.held writer.new)
        (part_text (words_of_wording wording.old) (front_of front.now) told run.now)) }
    ensures words { OnOk result (words_of_wording wording.new ≡ words_of_wording wording.old) }
    ensures counted { OnOk result (W.failures writer.new ≡ W.failures writer.old) }
    ensures err { IfErr result (λ fault. WritesInPart fault
        (part_text (words_of_wording wording.old) (front_of front.now) told run.now) (W.held writer.old)
        (W.held writer.new)) }
    ensures fault { IfErr result (λ fault. IsOfWriter fault (W.failures writer.old) (W.failures writer.new)) }
{
    wording.put_part(front.text(), told, run)?;
    match write_text(wording, writer) {
        Ok(()) => Ok(()),
        Err(fault) => Err(fault),
    }
}

/// Returns the part of the given bytes that the parser reads at once: at most the first `PART` bytes.
fn first_part(bytes: &[u8]) -> &[u8]
    requires { 0 < length bytes.now }
    ensures some { 0 < length result.now }
    ensures within { length result.now ≤ length bytes.now }
    ensures front { (n : ℕ) → n ≤ length result.now → take n result.now ≡ take n bytes.now }
{
    if bytes.len() < PART {
        bytes
    } else {
        &bytes[..PART]
    }
}

/// Whether the last byte that was read completed a document whose beginning has already been written.
fn ends_front(reading: &Reading, front: &Front) -> bool
    ensures found { result ≡ true → (state_of reading.now).found ≡ Document }
    ensures some { result ≡ true → (length (front_of front.now) == 0) ≡ false }
    ensures other { result ≡ false → (state_of reading.now).found ≡ Document
        → (length (front_of front.now) == 0) ≡ true }
{
    reading.found() == Found::Document && !front.text().is_empty()
}

/// Lets the parser read some of the given bytes. If the bytes that the parser has read complete an item, the call
/// writes the item. Returns the number of bytes that were read.
fn feed_part<W: ScriptWrite>(
    reading: &mut Reading,
    front: &mut Front,
    wording: &mut Wording,
    writer: &mut W,
    bytes: &[u8],
) -> Result<usize, AnswerFault>
    requires { 0 < length bytes.now }
    ensures within { IfOk result (λ count. (0 < count) × (count ≤ length bytes.now)) }
    ensures ok { (s : State) → (part : List ℕ) → Tracks s (state_of reading.old) (front_of front.old)
        (front_length_of front.old) (words_of_wording wording.old) part → IfOk result (λ count.
        Feeds s (words_of_wording wording.old) part (take count bytes.now) (state_of reading.new)
        (front_of front.new) (front_length_of front.new) (words_of_wording wording.new) (W.held writer.old)
        (W.held writer.new)) }
    ensures counted { OnOk result (W.failures writer.new ≡ W.failures writer.old) }
    ensures err { (s : State) → (part : List ℕ) → Tracks s (state_of reading.old) (front_of front.old)
        (front_length_of front.old) (words_of_wording wording.old) part → IfErr result (λ fault.
        Breaks fault s (words_of_wording wording.old) part bytes.now (W.held writer.old) (W.held writer.new)) }
    ensures fault { IfErr result (λ fault. CountsOfWriter (Err fault) (W.failures writer.old)
        (W.failures writer.new)) }
{
    let count = reading.take_in(first_part(bytes))?;
    if ends_front(reading, front) {
        match tell_rest(reading, front, wording, writer) {
            Ok(()) => Ok(count),
            Err(fault) => Err(fault),
        }
    } else {
        match tell(reading, wording, writer) {
            Ok(()) => Ok(count),
            Err(fault) => Err(AnswerFault::Device { fault }),
        }
    }
}

/// Writes a run without storing the run in the parser. A run consists of consecutive bytes of a string in a long
/// document. If `bytes` does not begin with a run, the parser reads a prefix of `bytes`. Returns the number of bytes
/// that were read.
fn feed_some<W: ScriptWrite>(
    reading: &mut Reading,
    front: &mut Front,
    wording: &mut Wording,
    writer: &mut W,
    bytes: &[u8],
) -> Result<usize, AnswerFault>
    requires { 0 < length bytes.now }
    ensures within { IfOk result (λ count. (0 < count) × (count ≤ length bytes.now)) }
    ensures ok { (s : State) → (part : List ℕ) → Tracks s (state_of reading.old) (front_of front.old)
        (front_length_of front.old) (words_of_wording wording.old) part → IfOk result (λ count.
        Feeds s (words_of_wording wording.old) part (take count bytes.now) (state_of reading.new)
        (front_of front.new) (front_length_of front.new) (words_of_wording wording.new) (W.held writer.old)
        (W.held writer.new)) }
    ensures counted { OnOk result (W.failures writer.new ≡ W.failures writer.old) }
    ensures err { (s : State) → (part : List ℕ) → Tracks s (state_of reading.old) (front_of front.old)
        (front_length_of front.old) (words_of_wording wording.old) part → IfErr result (λ fault.
        Breaks fault s (words_of_wording wording.old) part bytes.now (W.held writer.old) (W.held writer.new)) }
    ensures fault { IfErr result (λ fault. CountsOfWriter (Err fault) (W.failures writer.old)
        (W.failures writer.new)) }
{
    let told = front.text().len();
    let count = front.pass(reading, bytes)?;
    if count == 0 {
        return feed_part(reading, front, wording, writer, bytes);
    }
    match tell_run(front, told, &bytes[..count], wording, writer) {
        Ok(()) => Ok(count),
        Err(fault) => Err(AnswerFault::Device { fault }),
    }
}

/// Parses bytes of a response, and writes each completed item.
fn feed<W: ScriptWrite>(
    reading: &mut Reading,
    front: &mut Front,
    wording: &mut Wording,
    writer: &mut W,
    bytes: &[u8],
) -> Result<(), AnswerFault>
    ensures ok { (s : State) → (part : List ℕ) → Tracks s (state_of reading.old) (front_of front.old)
        (front_length_of front.old) (words_of_wording wording.old) part → OnOk result
        (Feeds s (words_of_wording wording.old) part bytes.now (state_of reading.new) (front_of front.new)
        (front_length_of front.new) (words_of_wording wording.new) (W.held writer.old) (W.held writer.new)) }
    ensures counted { OnOk result (W.failures writer.new ≡ W.failures writer.old) }
    ensures err { (s : State) → (part : List ℕ) → Tracks s (state_of reading.old) (front_of front.old)
        (front_length_of front.old) (words_of_wording wording.old) part → IfErr result (λ fault.
        Breaks fault s (words_of_wording wording.old) part bytes.now (W.held writer.old) (W.held writer.new)) }
    ensures fault { IfErr result (λ fault. CountsOfWriter (Err fault) (W.failures writer.old)
        (W.failures writer.new)) }
{
    let mut rest = bytes;
    while !rest.is_empty() {
        let count = match feed_some(reading, front, wording, writer, rest) {
            Ok(count) => count,
            Err(fault) => return Err(fault),
        };
        rest = &rest[count..];
    }
    Ok(())
}

/// Returns the result of a conversion after the end of the input.
fn ended(reading: &Reading) -> Result<u64, AnswerFault>
    ensures { result ≡ ended_of (state_of reading.now) }
{
    match reading.end() {
        Ok(()) => Ok(reading.passed()),
        Err(why) => Err(AnswerFault::Refused {
            why,
            at: reading.taken(),
        }),
    }
}

/// Passes a line feed to the parser if the input ends within a line of a script's output.
fn feed_rest<W: ScriptWrite>(
    reading: &mut Reading,
    front: &mut Front,
    wording: &mut Wording,
    writer: &mut W,
) -> Result<(), AnswerFault>
    ensures ok { (s : State) → (part : List ℕ) → Tracks s (state_of reading.old) (front_of front.old)
        (front_length_of front.old) (words_of_wording wording.old) part → OnOk result
        (Feeds s (words_of_wording wording.old) part (last_end s) (state_of reading.new) (front_of front.new)
        (front_length_of front.new) (words_of_wording wording.new) (W.held writer.old) (W.held writer.new)) }
    ensures counted { OnOk result (W.failures writer.new ≡ W.failures writer.old) }
    ensures err { (s : State) → (part : List ℕ) → Tracks s (state_of reading.old) (front_of front.old)
        (front_length_of front.old) (words_of_wording wording.old) part → IfErr result (λ fault.
        Breaks fault s (words_of_wording wording.old) part (last_end s) (W.held writer.old) (W.held writer.new)) }
    ensures fault { IfErr result (λ fault. CountsOfWriter (Err fault) (W.failures writer.old)
        (W.failures writer.new)) }
{
    if !reading.has_rest() {
        return Ok(());
    }
    feed(reading, front, wording, writer, b"\n")
}

/// Writes the text that closes the output, if the input consists of complete responses.
fn end<W: ScriptWrite>(
    reading: &Reading,
    wording: &Wording,
    writer: &mut W,
) -> Result<u64, AnswerFault>
    ensures ends { EndsAnswers (state_of reading.now) (words_of_wording wording.now) (W.held writer.old)
        (W.held writer.new) result }
    ensures counts { CountsOfWriter result (W.failures writer.old) (W.failures writer.new) }
{
    match ended(reading) {
        Ok(passed) => match write_all(writer, wording.last()) {
            Ok(()) => Ok(passed),
            Err(fault) => Err(AnswerFault::Device { fault }),
        },
        Err(fault) => Err(fault),
    }
}

/// Handles the end of the input, and writes the text that closes the output.
fn finish<W: ScriptWrite>(
    reading: &mut Reading,
    front: &mut Front,
    wording: &mut Wording,
    writer: &mut W,
) -> Result<u64, AnswerFault>
    ensures finishes { (s : State) → (part : List ℕ) → Tracks s (state_of reading.old) (front_of front.old)
        (front_length_of front.old) (words_of_wording wording.old) part → Finishes s (words_of_wording wording.old)
        part (W.held writer.old) (W.held writer.new) result }
    ensures counts { CountsOfWriter result (W.failures writer.old) (W.failures writer.new) }
{
    match feed_rest(reading, front, wording, writer) {
        Ok(()) => end(reading, wording, writer),
        Err(fault) => Err(fault),
    }
}

/// Reads the input in chunks, and writes the items of each chunk.
fn run_chunks<R: ScriptRead, W: ScriptWrite>(
    reading: &mut Reading,
    front: &mut Front,
    wording: &mut Wording,
    reader: &mut R,
    writer: &mut W,
    chunks: &mut Chunks,
) -> Result<u64, AnswerFault>
    requires begins { state_of reading.old ≡ start reading.old.wanted }
    requires nothing { front_of front.old ≡ [] }
    requires room { AreChunks chunks.old }
    requires unread { chunks.old.turns ≡ 0 }
    ensures ok { IfOk result (λ passed. Answered reading.old.wanted (words_of_wording wording.old)
        (R.left reader.old) (W.held writer.old) (W.held writer.new) passed) }
    ensures end { OnOk result (IsAtEnd (R.left reader.new)) }
    ensures took { (input : List ℕ) × Appends (R.taken reader.old) (R.taken reader.new) input
        × Converts result reading.old.wanted (words_of_wording wording.old) (Some input) (W.held writer.old)
        (W.held writer.new) }
    ensures ended { OnOk result (R.ended reader.new) }
    ensures counted { OnOk result ((R.failures reader.new ≡ R.failures reader.old)
        × (W.failures writer.new ≡ W.failures writer.old)) }
    ensures fault { IfErr result (λ fault. Stopped reading.old.wanted (words_of_wording wording.old)
        (R.left reader.old) (W.held writer.old) (W.held writer.new) fault) }
    ensures counts { IfErr result (λ fault. CountsOf fault (R.reads reader.old) (R.reads reader.new)
        (R.failures reader.old) (R.failures reader.new) (W.failures writer.old) (W.failures writer.new)) }
{
    loop {
        let more = match chunks.next(reader) {
            Ok(more) => more,
            Err(fault) => return Err(AnswerFault::Device { fault }),
        };
        if !more {
            return finish(reading, front, wording, writer);
        }
        match feed(reading, front, wording, writer, chunks.bytes()) {
            Ok(()) => {}
            Err(fault) => return Err(fault),
        }
        if reading.is_refused() {
            return ended(reading);
        }
    }
}

/// Reads responses to the end of the input with a new parser, and writes each item as soon as it is complete. Returns
/// the number of objects that the parser skipped because they have no document.
///
/// # Errors
///
/// - `Refused`: the input is not a response. All items before the rejected byte have been written. If the rejected byte
///   is inside a long document, the output may also have the beginning of this document.
/// - `LateMember`: in a long document, a member `_id`, `_rev`, `_revisions` or `_deleted` follows an attachment. The
///   output has all items before the long document, and the beginning of the long document.
/// - `Device`: the reader, the writer or an allocation failed. The fault in `Device` is `Read` if the reader failed
///   during the call, or if the call needs more than 4,294,967,295 reads. Each read returns at most 65,536 bytes. The
///   fault in `Device` is `Write` if the writer failed during the call, and `Memory` if an allocation failed.
pub fn run_answers<R: ScriptRead, W: ScriptWrite>(
    alloc: Global,
    reading: &mut Reading,
    wording: &mut Wording,
    reader: &mut R,
    writer: &mut W,
) -> Result<u64, AnswerFault>
    requires begins { state_of reading.old ≡ start reading.old.wanted }

    // Suppose that the caller requests documents, and that the parser may skip objects without a document. If the input
    // consists of CouchDB responses, the call never returns `Refused`. A successful call writes the contents of the
    // responses.
    ensures forms { (text : List ℕ) → (held : List Piece) → wants_documents reading.old.wanted ≡ true
        → is_strict reading.old.wanted ≡ false → R.left reader.old ≡ Some text
        → IsAnswered reading.old.wanted text held → ReadsAnswers (words_of_wording wording.old) held
        (W.held writer.old) (W.held writer.new) result }

    // If the input is the output of a script and the caller requests only documents, the call writes the documents of
    // the script's output. If the input is the output of a script and the caller requests changes, the call writes the
    // changes in the script's output.
    ensures script { (text : List ℕ) → (held : List Piece) → wants_documents reading.old.wanted ≡ true
        → is_strict reading.old.wanted ≡ true → R.left reader.old ≡ Some text
        → IsScript reading.old.wanted text held → ReadsAnswers (words_of_wording wording.old) held
        (W.held writer.old) (W.held writer.new) result }

    ensures changes { (text : List ℕ) → (held : List Piece) → reading.old.wanted ≡ Changes
        → R.left reader.old ≡ Some text → IsChangeScript text held
        → ReadsAnswers (words_of_wording wording.old) held (W.held writer.old) (W.held writer.new) result }

    // If the caller requests leaves, and the input is a page of `_changes` or a response of `_revs_diff`, the call
    // writes the leaves in the input.
    ensures leaves { (text : List ℕ) → (held : List Piece) → reading.old.wanted ≡ Leaves
        → R.left reader.old ≡ Some text → AreLeaves text held
        → ReadsAnswers (words_of_wording wording.old) held (W.held writer.old) (W.held writer.new) result }

    // For any input.
    ensures ok { IfOk result (λ passed. Answered reading.old.wanted (words_of_wording wording.old)
        (R.left reader.old) (W.held writer.old) (W.held writer.new) passed) }
    ensures end { OnOk result (IsAtEnd (R.left reader.new)) }
    // The clauses `ok` and `fault` describe the output for the input that was unread when `run_answers` was called. The
    // clause `took` describes the output for the bytes that `run_answers` read. If the call succeeds, the reads
    // returned the complete input.
    ensures took { (input : List ℕ) × Appends (R.taken reader.old) (R.taken reader.new) input
        × Converts result reading.old.wanted (words_of_wording wording.old) (Some input) (W.held writer.old)
        (W.held writer.new) }
    ensures ended { OnOk result (R.ended reader.new) }
    ensures counted { OnOk result ((R.failures reader.new ≡ R.failures reader.old)
        × (W.failures writer.new ≡ W.failures writer.old)) }
    ensures fault { IfErr result (λ fault. Stopped reading.old.wanted (words_of_wording wording.old)
        (R.left reader.old) (W.held writer.old) (W.held writer.new) fault) }
    ensures counts { IfErr result (λ fault. CountsOf fault (R.reads reader.old) (R.reads reader.new)
        (R.failures reader.old) (R.failures reader.new) (W.failures writer.old) (W.failures writer.new)) }
{
    let mut chunks = Chunks::new(alloc)?;
    let mut front = Front::new(alloc);
    run_chunks(reading, &mut front, wording, reader, writer, &mut chunks)
}
