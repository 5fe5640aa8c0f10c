//! Values of members.
ghost use Rattle.std.specs.Prelude.{◌≡◌, IfOk, OnOk, slice_index};
ghost use Rattle.doc_envelope.specs.Texts.{is_json};
ghost use Rattle.response_parser.specs.Stored.{state_of};
ghost use Rattle.response_parser.specs.Names.{found_of, passes, refusal_of, is_error, is_item, is_seq};
ghost use Rattle.response_parser.specs.Values.{error_kept, told, judged, value_passed, value_ended, deeper, shallower, spaced, plain_ended, item_ended, object_ended, in_value, in_quoted, in_escaped};

use crate::members::is_plain;
use crate::place::{Found, Name, Place, Refusal, Wanted};
use crate::reading::Reading;
use crate::spelling::{is_space, more};
use crate::strings::is_plain_string;
use crate::wanted::wants_documents;
use doc_envelope::{has_id, is_log, is_printed_envelope};
use std::alloc::AllocError;

/// The maximum number of brackets of a value that are open at the same time.
pub(crate) const MAX_NESTING: u8 = 128;

impl Reading {
    /// Whether the parser's current text is JSON in UTF-8.
    pub(crate) fn is_json(&mut self) -> Result<bool, AllocError>
        ensures value { IfOk result (λ json. json ≡ is_json self.old.text.items) }
        ensures same { OnOk result (state_of self.new ≡ state_of self.old) }
    {
        if is_plain_string(self.text.as_slice()) {
            return Ok(true);
        }
        if self.wanted == Wanted::Unfolded && is_printed_envelope(self.text.as_slice()) {
            return Ok(true);
        }
        self.envelope.is_json_text(self.text.as_slice())
    }

    /// Reads a byte of a member's value.
    pub(crate) fn in_value(&mut self, name: Name, byte: u8) -> Result<(), AllocError>
        ensures { OnOk result (state_of self.new ≡ in_value name (state_of self.old) byte) }
    {
        if is_space(byte) {
            return self.space();
        }
        if self.nesting == 0 && (byte == b',' || byte == b'}') {
            return self.end_value(name, byte);
        }
        match byte {
            b'"' => {
                self.add(byte)?;
                self.stand_at(Place::Quoted(name));
                Ok(())
            }
            b'{' | b'[' => self.nest(byte),
            b'}' | b']' => self.unnest(name, byte),
            _ => self.add(byte),
        }
    }

    /// Reads a byte of white space that is in a member's value, but outside of strings. The parser drops white space
    /// before a value.
    fn space(&mut self) -> Result<(), AllocError>
        ensures { OnOk result (state_of self.new ≡ spaced (state_of self.old)) }
    {
        if self.text.is_empty() {
            return Ok(());
        }
        self.add(b' ')
    }

    /// Reads an opening bracket.
    fn nest(&mut self, byte: u8) -> Result<(), AllocError>
        ensures { OnOk result (state_of self.new ≡ deeper (state_of self.old) byte) }
    {
        if self.nesting < MAX_NESTING {
            self.nesting += 1;
            return self.add(byte);
        }
        self.refuse(Refusal::NotJson);
        Ok(())
    }

    /// Reads a closing bracket of a value, or the closing brace of a document.
    fn unnest(&mut self, name: Name, byte: u8) -> Result<(), AllocError>
        ensures { OnOk result (state_of self.new ≡ shallower name (state_of self.old) byte) }
    {
        if self.nesting == 0 {
            self.refuse(Refusal::NotJson);
            return Ok(());
        }
        let ends = self.nesting == 1 && is_plain(name);
        self.nesting -= 1;
        self.add(byte)?;
        if ends {
            return self.end_object(name);
        }
        Ok(())
    }

    /// Ends an object that is read as one value, at the object's closing brace.
    fn end_object(&mut self, name: Name) -> Result<(), AllocError>
        ensures { OnOk result (state_of self.new ≡ object_ended name (state_of self.old)) }
    {
        if is_item(name) {
            return self.end_item();
        }
        self.end_plain()
    }

    /// Ends an item of the outermost object's list `docs`. The item is a document if it has a member `_id`.
    fn end_item(&mut self) -> Result<(), AllocError>
        ensures { OnOk result (state_of self.new ≡ item_ended (state_of self.old)) }
    {
        if !self.is_json()? {
            self.refuse(Refusal::NotJson);
            return Ok(());
        }
        if has_id(self.text.as_slice()) {
            self.known = true;
            self.close_object();
            return self.find_document();
        }
        self.known = false;
        self.close_object();
        Ok(())
    }

    /// Ends a document at its closing brace.
    fn end_plain(&mut self) -> Result<(), AllocError>
        ensures { OnOk result (state_of self.new ≡ plain_ended (state_of self.old)) }
    {
        if !self.is_json()? {
            self.refuse(Refusal::NotJson);
            return Ok(());
        }
        self.known = true;
        self.close_object();
        if wants_documents(self.wanted) && !is_log(self.text.as_slice()) {
            return self.find_document();
        }
        Ok(())
    }

    /// Reads the byte after a member's value, which must be a comma or the brace that closes the object.
    fn end_value(&mut self, name: Name, byte: u8) -> Result<(), AllocError>
        ensures { OnOk result (state_of self.new ≡ value_ended name (state_of self.old) byte) }
    {
        if !self.is_json()? {
            self.refuse(Refusal::NotJson);
            return Ok(());
        }
        let first = first_of(self.text.as_slice());
        if let Some(why) = refusal_of(name, first, self.failed) {
            self.refuse(why);
            return Ok(());
        }
        self.pass_value(byte);
        self.judge(name, first)
    }

    /// Reads the byte after a member's value that the parser has accepted.
    fn pass_value(&mut self, byte: u8)
        ensures { state_of self.new ≡ value_passed (state_of self.old) byte }
    {
        if byte == b',' {
            self.stand_at(Place::NextMember);
        } else {
            self.close_object();
        }
    }

    /// Handles a complete value, depending on the value's first byte.
    fn judge(&mut self, name: Name, first: u8) -> Result<(), AllocError>
        ensures { OnOk result (state_of self.new ≡ judged name first (state_of self.old)) }
    {
        if is_seq(name) {
            self.known = false;
        }
        if passes(name, first) {
            self.passed = more(self.passed);
        }
        self.keep_error(name, first)?;
        let found = found_of(name, first);
        self.tell(found)
    }

    /// Stores CouchDB's error.
    fn keep_error(&mut self, name: Name, first: u8) -> Result<(), AllocError>
        ensures { OnOk result (state_of self.new ≡ error_kept name first (state_of self.old)) }
    {
        if !is_error(name) || first != b'"' {
            return Ok(());
        }
        self.failed = true;
        self.error.clear();
        self.error.extend_from_slice(self.text.as_slice())
    }

    /// Reports the current text.
    fn tell(&mut self, found: Found) -> Result<(), AllocError>
        ensures { OnOk result (state_of self.new ≡ told found (state_of self.old)) }
    {
        match found {
            Found::Document => self.find_document(),
            found => {
                self.found = found;
                Ok(())
            }
        }
    }

    /// Reads a byte of a string in a value.
    pub(crate) fn in_quoted(&mut self, name: Name, byte: u8) -> Result<(), AllocError>
        ensures { OnOk result (state_of self.new ≡ in_quoted name (state_of self.old) byte) }
    {
        self.add(byte)?;
        match byte {
            b'"' => self.stand_at(Place::Value(name)),
            b'\\' => self.stand_at(Place::Escaped(name)),
            _ => {}
        }
        Ok(())
    }

    /// Reads a byte after a backslash in a string of a value.
    pub(crate) fn in_escaped(&mut self, name: Name, byte: u8) -> Result<(), AllocError>
        ensures { OnOk result (state_of self.new ≡ in_escaped name (state_of self.old) byte) }
    {
        self.add(byte)?;
        self.stand_at(Place::Quoted(name));
        Ok(())
    }
}

/// Returns the first byte of a text, or 0 if the text is empty.
fn first_of(text: &[u8]) -> u8
    ensures { result ≡ slice_index text.now 0 }
{
    if text.is_empty() { 0 } else { text[0] }
}

/// Returns the kind of item that the parser reports for a member's value. The result depends on the member's kind
/// `name` and on the value's first byte `first`.
fn found_of(name: Name, first: u8) -> Found
    ensures { result ≡ found_of name first }
{
    match name {
        Name::Document if first == b'{' => Found::Document,
        Name::Id if first == b'"' => Found::Id,
        Name::Rev if first == b'"' => Found::Rev,
        _ => Found::Nothing,
    }
}

/// Whether the parser counts a member's value as skipped, because the value, such as an error, replaces a document.
fn passes(name: Name, first: u8) -> bool
    ensures { result ≡ passes name first }
{
    match name {
        Name::Document => first != b'{',
        Name::Passed | Name::Error => true,
        _ => false,
    }
}

/// Returns the reason why the parser rejects a member's value, or `None`. The parser rejects an `id` or a `rev` that is
/// not a string. The parser also rejects the `reason` of a CouchDB error, if the `reason` is a string.
fn refusal_of(name: Name, first: u8, failed: bool) -> Option<Refusal>
    ensures { result ≡ refusal_of name first failed }
{
    match name {
        Name::Id | Name::Rev if first != b'"' => Some(Refusal::NoAnswer),
        Name::Reason if first == b'"' && failed => Some(Refusal::CouchError),
        _ => None,
    }
}

/// Whether a member is the first member of an item in the list `docs`, and has another name than `_id`.
fn is_item(name: Name) -> bool
    ensures { result ≡ is_item name }
{
    matches!(name, Name::Item)
}

/// Whether a member is the `seq` of a PouchDB dump.
fn is_seq(name: Name) -> bool
    ensures { result ≡ is_seq name }
{
    matches!(name, Name::Seq)
}

/// Whether a member is the `error` of a CouchDB error.
fn is_error(name: Name) -> bool
    ensures { result ≡ is_error name }
{
    matches!(name, Name::Error)
}
