//! The parser of responses, and the calls that feed it bytes.
ghost use Rattle.std.specs.Prelude.{◌≡◌, ◌<◌, ◌≤◌, ◌-◌, [], false, length, take, IfOk, OnOk};
ghost use Rattle.response_parser.specs.Stored.{state_of};
ghost use Rattle.response_parser.specs.State.{start};
ghost use Rattle.response_parser.specs.Reading.{after, end_of, given, has_rest, pieces, stops};
ghost use Rattle.response_parser.specs.Steps.{is_refused, begun, moved, step};

use crate::place::{Found, Place, Refusal, Wanted};
use crate::spelling::more;
use crate::wanted::first_place;
use doc_envelope::Envelope;
use std::alloc::{AllocError, Global};

/// The state of the parser of responses between two bytes.
#[derive(Drop)]
pub struct Reading {
    pub(crate) wanted: Wanted,
    pub(crate) place: Place,
    /// Whether the parser has already read the closing bracket of a list or an object in the input.
    pub(crate) some: bool,
    /// The number of open lists and objects.
    pub(crate) depth: u8,
    /// Whether the parser has read a member that makes it accept the innermost open object.
    pub(crate) known: bool,
    /// Whether the innermost open object has a member with a document id.
    pub(crate) named: bool,
    /// Whether the current member is the first member of its object.
    pub(crate) first: bool,
    /// Whether the parser is in a list of a document's revisions, or in the list `docs` of an outermost object.
    pub(crate) inner: bool,
    /// Whether the current response is a response of `_revs_diff`.
    pub(crate) diff: bool,
    /// Whether the parser has read a member `error` whose value is a string. When the parser opens or closes a list or
    /// an object that it searches, the flag becomes false.
    pub(crate) failed: bool,
    /// The number of brackets of the current value that are open.
    pub(crate) nesting: u8,
    /// The stored part of the current name or value.
    pub(crate) text: Vec<u8>,
    /// The text of CouchDB's last error in the input.
    pub(crate) error: Vec<u8>,
    pub(crate) found: Found,
    /// The number of skipped entries. An entry is an object without a document, an error or another value instead of a
    /// document, or a `refused` line of a script's output.
    pub(crate) passed: u64,
    /// The number of bytes that the parser has read.
    pub(crate) taken: u64,
    pub(crate) envelope: Envelope,
}

impl Reading {
    /// Starts a parser.
    pub fn new(alloc: Global, wanted: Wanted) -> Reading
        ensures { state_of result ≡ start wanted }
    {
        Reading {
            wanted,
            place: first_place(wanted),
            some: false,
            depth: 0,
            known: false,
            named: false,
            first: false,
            inner: false,
            diff: false,
            failed: false,
            nesting: 0,
            text: Vec::new(alloc),
            error: Vec::new(alloc),
            found: Found::Nothing,
            passed: 0,
            taken: 0,
            envelope: Envelope::new(alloc),
        }
    }

    /// Reads bytes until a byte completes an item, the parser rejects a byte, or the bytes end. Returns the number of
    /// bytes that this call read.
    ///
    /// After a failed allocation, the caller must not use the parser again.
    pub fn take_in(&mut self, bytes: &[u8]) -> Result<usize, AllocError>
        requires { 0 < length bytes.now }
        ensures some { IfOk result (λ count. 0 < count) }
        ensures within { IfOk result (λ count. count ≤ length bytes.now) }
        ensures state { IfOk result (λ count. state_of self.new ≡ after (state_of self.old) (take count bytes.now)) }
        ensures pieces { IfOk result
            (λ count. pieces (state_of self.old) (take count bytes.now) ≡ given (state_of self.new)) }
        // Of the bytes that this call read, only the last byte may complete an item.
        ensures first { IfOk result (λ count. pieces (state_of self.old) (take (count - 1) bytes.now) ≡ []) }
        ensures all { IfOk result (λ count. stops (state_of self.new) ≡ false → count ≡ length bytes.now) }
    {
        let mut i = 0;
        while i < bytes.len() {
            self.take(bytes[i])?;
            i += 1;
            if self.stops() {
                return Ok(i);
            }
            i += self.copy(&bytes[i..])?;
        }
        Ok(i)
    }

    /// Returns the item that the last byte completed.
    pub fn found(&self) -> Found
        ensures { result ≡ (state_of self.now).found }
    {
        self.found
    }

    /// Returns the text of the completed item, if the last byte completed an item.
    pub fn text(&self) -> &[u8]
        ensures { result.now ≡ (state_of self.now).text }
    {
        self.text.as_slice()
    }

    /// Returns the text of CouchDB's error, with its quotation marks.
    pub fn error(&self) -> &[u8]
        ensures { result.now ≡ (state_of self.now).error }
    {
        self.error.as_slice()
    }

    /// Returns the number of documents that the parser skipped: objects without a document, values that a response has
    /// instead of a document, and lines `refused` of a script's output.
    pub fn passed(&self) -> u64
        ensures { result ≡ (state_of self.now).passed }
    {
        self.passed
    }

    /// Returns the number of bytes that the parser has read, including a rejected byte.
    pub fn taken(&self) -> u64
        ensures { result ≡ (state_of self.now).taken }
    {
        self.taken
    }

    /// Whether the parser has rejected a byte.
    pub fn is_refused(&self) -> bool
        ensures { result ≡ is_refused (state_of self.now).place }
    {
        is_refused(self.place)
    }

    /// Ends the input. If the input does not consist of complete responses, the call returns the reason.
    pub fn end(&self) -> Result<(), Refusal>
        ensures { result ≡ end_of (state_of self.now).place }
    {
        match self.place {
            Place::Between | Place::Begin => Ok(()),
            Place::Start | Place::Sign => Err(Refusal::NoAnswer),
            Place::Refused(why) => Err(why),
            _ => Err(Refusal::CutOff),
        }
    }

    /// Whether the last line of a script's output has no line end.
    pub fn has_rest(&self) -> bool
        ensures { result ≡ has_rest (state_of self.now).place }
    {
        matches!(self.place, Place::Line(_))
    }

    /// Whether the last byte completed an item, or the parser has rejected a byte.
    #[inline(always)]
    fn stops(&self) -> bool
        ensures { result ≡ stops (state_of self.now) }
    {
        self.found != Found::Nothing || is_refused(self.place)
    }

    /// Reads a byte.
    #[inline(always)]
    #[tactic(auto, unfolding(crate::specs::Steps::step))]
    fn take(&mut self, byte: u8) -> Result<(), AllocError>
        ensures { OnOk result (state_of self.new ≡ step (state_of self.old) byte) }
    {
        self.begin();
        self.advance(byte)
    }

    /// Clears the found item, and counts the next byte as read unless the parser has already rejected a byte.
    #[inline(always)]
    fn begin(&mut self)
        ensures { state_of self.new ≡ begun (state_of self.old) }
    {
        self.found = Found::Nothing;
        if !is_refused(self.place) {
            self.taken = more(self.taken);
        }
    }

    /// Reads a byte at the parser's current place.
    #[inline(always)]
    fn advance(&mut self, byte: u8) -> Result<(), AllocError>
        ensures { OnOk result (state_of self.new ≡ moved self.old.place (state_of self.old) byte) }
    {
        match self.place {
            Place::Value(name) => self.in_value(name, byte),
            Place::Quoted(name) => self.in_quoted(name, byte),
            Place::Escaped(name) => self.in_escaped(name, byte),
            Place::Line(place) => self.in_line(place, byte),
            Place::Revs(place) => self.in_revs(place, byte),
            Place::Ahead(name) => self.at_ahead(name, byte),
            Place::Start | Place::Begin | Place::Between => self.at_answer(byte),
            Place::Sign => self.in_sign(byte),
            Place::Key => self.in_key(byte),
            Place::KeyEscape => self.in_key_escape(byte),
            Place::Member => self.at_member(byte),
            Place::NextMember => self.at_next_member(byte),
            _ => {
                self.between(byte);
                Ok(())
            }
        }
    }
}

/// Whether the parser has rejected a byte of its input.
#[inline(always)]
fn is_refused(place: Place) -> bool
    ensures { result ≡ is_refused place }
{
    matches!(place, Place::Refused(_))
}
