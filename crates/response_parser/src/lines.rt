//! Reads the lines of a script's output.
ghost use Rattle.std.specs.Prelude.{◌≡◌, OnOk};
ghost use Rattle.response_parser.specs.Stored.{state_of};
ghost use Rattle.response_parser.specs.Objects.{at_answer, at_begin, is_first};
ghost use Rattle.response_parser.specs.Lines.{text_begun, is_lower, line_ended, change_begun, is_change, word_ended, in_word, in_rest, is_digit, in_seq, before_id, id_ended, in_id, in_id_escape, after_id, is_rev_byte, before_rev, rev_ended, in_rev, in_line};

use crate::place::{Found, LinePlace, Place, Refusal};
use crate::reading::Reading;
use crate::spelling::{is, is_space, more};
use crate::wanted::{is_strict, wants_changes, wants_leaves};
use std::alloc::AllocError;

impl Reading {
    /// Reads a byte in a line of a script's output.
    pub(crate) fn in_line(&mut self, place: LinePlace, byte: u8) -> Result<(), AllocError>
        ensures { OnOk result (state_of self.new ≡ in_line place (state_of self.old) byte) }
    {
        match place {
            LinePlace::Word => self.in_word(byte),
            LinePlace::BeforeId => self.before_id(byte),
            LinePlace::Id => self.in_id(byte),
            LinePlace::IdEscape => self.in_id_escape(byte),
            LinePlace::BeforeRev => self.before_rev(byte),
            LinePlace::Rev => self.in_rev(byte),
            LinePlace::Rest => {
                self.in_rest(byte);
                Ok(())
            }
            LinePlace::Seq => {
                self.in_seq(byte);
                Ok(())
            }
            LinePlace::AfterId => {
                self.after_id(byte);
                Ok(())
            }
        }
    }

    /// Starts the parser's text of a name or value with a given byte.
    fn begin_text(&mut self, place: LinePlace, byte: u8) -> Result<(), AllocError>
        ensures { OnOk result (state_of self.new ≡ text_begun place (state_of self.old) byte) }
    {
        self.place = Place::Line(place);
        self.text.clear();
        self.text.push(byte)?;
        Ok(())
    }

    /// Reads a byte before the first byte of a response or of a line of a script's output.
    pub(crate) fn at_answer(&mut self, byte: u8) -> Result<(), AllocError>
        ensures { OnOk result (state_of self.new ≡ at_answer (state_of self.old) byte) }
    {
        if is_space(byte) {
            return Ok(());
        }
        match byte {
            b'[' => self.open_list(),
            b'{' => self.open(Place::Member),
            _ => return self.at_begin(byte),
        }
        Ok(())
    }

    /// Reads a byte that opens neither a list nor an object. Either a line of a script's output begins with this byte,
    /// or the parser rejects the input.
    fn at_begin(&mut self, byte: u8) -> Result<(), AllocError>
        ensures { OnOk result (state_of self.new ≡ at_begin (state_of self.old) byte) }
    {
        if is_lower(byte) && !wants_leaves(self.wanted) {
            return self.begin_text(LinePlace::Word, byte);
        }
        if is_first(self.place) {
            return self.begin_sign(byte);
        }
        self.refuse(Refusal::NoAnswer);
        Ok(())
    }

    /// Reads a byte of a line's first word, or the byte after that word.
    fn in_word(&mut self, byte: u8) -> Result<(), AllocError>
        ensures { OnOk result (state_of self.new ≡ in_word (state_of self.old) byte) }
    {
        if byte == b'\n' || byte == b' ' {
            self.end_word(byte);
            Ok(())
        } else {
            self.add(byte)
        }
    }

    /// Reads the byte (a blank or a line end) after the first word of a line of a script's output.
    fn end_word(&mut self, byte: u8)
        ensures { state_of self.new ≡ word_ended (state_of self.old) byte }
    {
        if self.is_change() {
            self.begin_change(byte);
            return;
        }
        if is(self.text.as_slice(), b"refused") {
            self.passed = more(self.passed);
        }
        if byte == b'\n' {
            self.end_line();
        } else {
            self.stand_at(Place::Line(LinePlace::Rest));
        }
    }

    /// Ends a line. The parser continues at `Start` if the input must still have a response, and otherwise at
    /// `Between`.
    fn end_line(&mut self)
        ensures { state_of self.new ≡ line_ended (state_of self.old) }
    {
        self.place = if self.some || is_strict(self.wanted) {
            Place::Between
        } else {
            Place::Start
        };
    }

    /// Whether the caller requested changes, and the first word of the line is `change`.
    fn is_change(&self) -> bool
        ensures { result ≡ is_change (state_of self.now) }
    {
        wants_changes(self.wanted) && is(self.text.as_slice(), b"change")
    }

    /// Ends the word `change`.
    fn begin_change(&mut self, byte: u8)
        ensures { state_of self.new ≡ change_begun (state_of self.old) byte }
    {
        if byte == b' ' {
            self.place = Place::Line(LinePlace::Seq);
            self.text.clear();
        } else {
            self.refuse(Refusal::NoAnswer);
        }
    }

    /// Reads a byte of the part of a line that the parser ignores.
    fn in_rest(&mut self, byte: u8)
        ensures { state_of self.new ≡ in_rest (state_of self.old) byte }
    {
        if byte == b'\n' {
            self.end_line();
        }
    }

    /// Reads a byte of the sequence in a `change` line.
    fn in_seq(&mut self, byte: u8)
        ensures { state_of self.new ≡ in_seq (state_of self.old) byte }
    {
        if is_digit(byte) {
            return;
        }
        if byte == b' ' {
            self.stand_at(Place::Line(LinePlace::BeforeId));
        } else {
            self.refuse(Refusal::NoAnswer);
        }
    }

    /// Reads the first byte of the document id in a `change` line.
    fn before_id(&mut self, byte: u8) -> Result<(), AllocError>
        ensures { OnOk result (state_of self.new ≡ before_id (state_of self.old) byte) }
    {
        if byte == b'"' {
            return self.begin_text(LinePlace::Id, byte);
        }
        self.refuse(Refusal::NoAnswer);
        Ok(())
    }

    /// Reads a byte of the document id in a `change` line.
    fn in_id(&mut self, byte: u8) -> Result<(), AllocError>
        ensures { OnOk result (state_of self.new ≡ in_id (state_of self.old) byte) }
    {
        self.add(byte)?;
        match byte {
            b'"' => return self.end_id(),
            b'\\' => self.stand_at(Place::Line(LinePlace::IdEscape)),
            _ => {}
        }
        Ok(())
    }

    /// Ends an id.
    fn end_id(&mut self) -> Result<(), AllocError>
        ensures { OnOk result (state_of self.new ≡ id_ended (state_of self.old)) }
    {
        if self.is_json()? {
            self.found = Found::Id;
            self.stand_at(Place::Line(LinePlace::AfterId));
        } else {
            self.refuse(Refusal::NotJson);
        }
        Ok(())
    }

    /// Reads a byte after a backslash in a document id.
    fn in_id_escape(&mut self, byte: u8) -> Result<(), AllocError>
        ensures { OnOk result (state_of self.new ≡ in_id_escape (state_of self.old) byte) }
    {
        self.add(byte)?;
        self.stand_at(Place::Line(LinePlace::Id));
        Ok(())
    }

    /// Reads the byte after the document id in a `change` line.
    fn after_id(&mut self, byte: u8)
        ensures { state_of self.new ≡ after_id (state_of self.old) byte }
    {
        if byte == b' ' {
            self.stand_at(Place::Line(LinePlace::BeforeRev));
        } else {
            self.refuse(Refusal::NoAnswer);
        }
    }

    /// Reads the first byte of a revision in a `change` line.
    fn before_rev(&mut self, byte: u8) -> Result<(), AllocError>
        ensures { OnOk result (state_of self.new ≡ before_rev (state_of self.old) byte) }
    {
        if !is_rev_byte(byte) {
            self.refuse(Refusal::NoAnswer);
            return Ok(());
        }
        self.begin_text(LinePlace::Rev, b'"')?;
        self.add(byte)
    }

    /// Reads a byte of a revision in a `change` line, or the byte after the revision.
    fn in_rev(&mut self, byte: u8) -> Result<(), AllocError>
        ensures { OnOk result (state_of self.new ≡ in_rev (state_of self.old) byte) }
    {
        if is_rev_byte(byte) {
            return self.add(byte);
        }
        match byte {
            b',' => return self.end_rev(Place::Line(LinePlace::BeforeRev)),
            b'\n' => return self.end_rev(Place::Between),
            _ => self.refuse(Refusal::NoAnswer),
        }
        Ok(())
    }

    /// Reports a complete revision of a `change` line, and sets the parser's place to `place`.
    fn end_rev(&mut self, place: Place) -> Result<(), AllocError>
        ensures { OnOk result (state_of self.new ≡ rev_ended place (state_of self.old)) }
    {
        self.add(b'"')?;
        self.found = Found::Rev;
        self.stand_at(place);
        Ok(())
    }
}

/// Whether a byte is a lowercase ASCII letter.
fn is_lower(byte: u8) -> bool
    ensures { result ≡ is_lower byte }
{
    byte >= b'a' && byte <= b'z'
}

/// Whether a byte is an ASCII digit.
fn is_digit(byte: u8) -> bool
    ensures { result ≡ is_digit byte }
{
    byte >= b'0' && byte <= b'9'
}

/// Whether a byte may be part of a revision.
fn is_rev_byte(byte: u8) -> bool
    ensures { result ≡ is_rev_byte byte }
{
    is_digit(byte)
        || is_lower(byte)
        || byte >= b'A' && byte <= b'Z'
        || byte == b'-'
        || byte == b'_'
        || byte == b'.'
}

/// Whether a place in the grammar is before the first response.
fn is_first(place: Place) -> bool
    ensures { result ≡ is_first place }
{
    matches!(place, Place::Start | Place::Begin)
}
