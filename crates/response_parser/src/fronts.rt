//! Lets the caller write string bytes of a long document directly, without storing the bytes in the parser.
ghost use Rattle.std.specs.Prelude.{◌≡◌, ◌<◌, ◌≤◌, ◌==◌, [], false, length, nat_eq, take, true, IfOk, OnOk};
ghost use Rattle.std.specs.List.{list_all, starts_with};
ghost use Rattle.doc_envelope.specs.Stored.{made_of};
ghost use Rattle.doc_envelope.specs.Streams.{IsRun, is_streamable};
ghost use Rattle.response_parser.specs.Fronts.{IsStart};
ghost use Rattle.response_parser.specs.Passing.{FollowsFront, IsLong, Passes};
ghost use Rattle.response_parser.specs.Stored.{front_length_of, front_of, state_of};

use crate::place::{Found, Name, Place, Wanted};
use crate::reading::Reading;
use doc_envelope::is_log;
use json_values::plain_end;
use std::alloc::{AllocError, Global};

/// A document is long if the parser has stored at least `LONG` of its bytes.
const LONG: usize = 262_144;

/// The parser builds the beginning of a document's output only if at least `RUN` bytes of a string come next in the
/// current read.
const RUN: usize = 1_024;

/// The parser reads at least n / `SHARE` bytes between two attempts to build the beginning of a document's output. The
/// number n is the number of stored bytes at the earlier attempt.
const SHARE: u64 = 4;

/// The beginning of a long document's output, which the caller writes before the document ends. A `Front` is empty if
/// the caller has not yet written a byte of the current document's output.
#[derive(Drop)]
pub struct Front {
    text: Vec<u8>,
    /// The number of bytes of the current document that the parser had stored when it built the text of the `Front`.
    length: usize,
    /// The parser may build the text of the `Front` again when it has read at least this number of input bytes.
    next: u64,
}

impl Front {
    /// Creates an empty `Front`.
    pub fn new(alloc: Global) -> Front
        ensures { front_of result ≡ [] }
    {
        Front {
            text: Vec::new(alloc),
            length: 0,
            next: 0,
        }
    }

    /// Returns the beginning of the current document's output.
    pub fn text(&self) -> &[u8]
        ensures { result.now ≡ front_of self.now }
    {
        self.text.as_slice()
    }

    /// Empties the `Front`, because the current document has ended.
    pub fn end(&mut self)
        ensures { front_of self.new ≡ [] }
    {
        self.text.clear();
    }

    /// Reads consecutive string bytes of a long document, does not store the bytes, and returns their number. Returns 0
    /// if the next bytes must be read with `Reading::take_in`. After each call, the caller must first write the bytes
    /// that were added to the `Front`, and then the bytes that `pass` read.
    pub fn pass(&mut self, reading: &mut Reading, bytes: &[u8]) -> Result<usize, AllocError>
        ensures within { IfOk result (λ count. count ≤ length bytes.now) }
        ensures none { IfOk result (λ count. count ≡ 0 → (state_of reading.new ≡ state_of reading.old)
            × (front_of self.new ≡ front_of self.old) × (front_length_of self.new ≡ front_length_of self.old)) }
        ensures passes { IfOk result (λ count. 0 < count → Passes (state_of reading.old) (take count bytes.now)
            (state_of reading.new) (front_of self.old) (front_length_of self.old) (front_of self.new)
            (front_length_of self.new)) }
    {
        let Place::Quoted(name) = reading.place else {
            return Ok(0);
        };
        if !reading.is_long(name) {
            return Ok(0);
        }
        let count = run_length(bytes);
        if count == 0 || !self.may_pass(reading, count)? {
            return Ok(0);
        }
        reading.taken = reading.taken.saturating_add(count as u64);
        Ok(count)
    }

    /// Whether the parser may pass on the next `count` string bytes without storing the bytes. The call builds the text
    /// of the `Front` if the `Front` is empty, or if the parser has stored more bytes since the last build. The limits
    /// `RUN` and `SHARE` may forbid a build.
    fn may_pass(&mut self, reading: &mut Reading, count: usize) -> Result<bool, AllocError>
        ensures same { OnOk result (state_of reading.new ≡ state_of reading.old) }
        ensures none { IfOk result (λ ok. ok ≡ false → (front_of self.new ≡ front_of self.old)
            × (front_length_of self.new ≡ front_length_of self.old)) }
        ensures follows { IfOk result (λ ok. ok ≡ true → FollowsFront (state_of reading.old) (front_of self.old)
            (front_length_of self.old) (front_of self.new) (front_length_of self.new)) }
    {
        if !self.text.is_empty() && reading.text.len() == self.length {
            return Ok(true);
        }
        if count < RUN || reading.taken < self.next {
            return Ok(false);
        }
        self.next = reading
            .taken
            .saturating_add(reading.text.len() as u64 / SHARE);
        if !reading.make_front()? || !self.may_become(reading.envelope.text()) {
            return Ok(false);
        }
        self.text.clear();
        self.text.extend_from_slice(reading.envelope.text())?;
        self.length = reading.text.len();
        Ok(true)
    }

    /// Whether a text may replace the text of the `Front`: the new text is not empty, and begins with the text of the
    /// `Front`.
    fn may_become(&self, text: &[u8]) -> bool
        ensures begins { result ≡ true → starts_with nat_eq text.now (front_of self.now) ≡ true }
        ensures some { result ≡ true → (length text.now == 0) ≡ false }
    {
        !text.is_empty() && text.starts_with(self.text.as_slice())
    }
}

impl Reading {
    /// Whether the current value is a document that is so long that the parser may pass on string bytes without storing
    /// them.
    fn is_long(&self, name: Name) -> bool
        ensures { result ≡ true → IsLong name (state_of self.now) }
    {
        if self.text.len() < LONG || self.text[0] != b'{' || self.found != Found::Nothing {
            return false;
        }
        match name {
            Name::Document => true,
            Name::Plain => self.nesting > 0 && !is_log(self.text.as_slice()),
            _ => false,
        }
    }

    /// Builds the beginning of the current document's output. If the call returns `true`, the parser may pass on string
    /// bytes after the stored text without storing these bytes.
    fn make_front(&mut self) -> Result<bool, AllocError>
        ensures same { OnOk result (state_of self.new ≡ state_of self.old) }
        ensures starts { IfOk result
            (λ ok. ok ≡ true → IsStart self.old.wanted self.old.text.items (made_of self.new.envelope)) }
    {
        match self.wanted {
            Wanted::Enveloped => self.envelope.begin_put(self.text.as_slice()),
            Wanted::Unfolded => self.envelope.begin_take(self.text.as_slice()),
            _ => Ok(false),
        }
    }
}

/// Returns the number of bytes before the first quotation mark, backslash or control character. Returns 0 if one of the
/// counted bytes is not printable ASCII.
fn run_length(bytes: &[u8]) -> usize
    ensures within { result ≤ length bytes.now }
    ensures run { IsRun (take result bytes.now) }
{
    let end = plain_end(bytes, 0);
    if are_streamable(&bytes[..end]) {
        end
    } else {
        0
    }
}

/// Whether each byte of a text is printable ASCII, and not a quotation mark or a backslash.
fn are_streamable(text: &[u8]) -> bool
    ensures { result ≡ list_all is_streamable text.now }
{
    text.iter().all(|b| is_streamable(*b))
}

/// Whether a byte is printable ASCII, and not a quotation mark or a backslash.
#[inline(always)]
fn is_streamable(byte: u8) -> bool
    ensures { result ≡ is_streamable byte }
{
    byte >= b' ' && byte < 127 && byte != b'"' && byte != b'\\'
}
