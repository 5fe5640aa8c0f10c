//! Lists of missing revisions.
ghost use Rattle.std.specs.Prelude.{◌≡◌, OnOk};
ghost use Rattle.response_parser.specs.Stored.{state_of};
ghost use Rattle.response_parser.specs.Revs.{in_revs, at_revs, at_first_rev, at_next_rev, in_missing, missing_ended, in_missing_escape, after_missing};

use crate::place::{Found, Place, Refusal, RevPlace};
use crate::reading::Reading;
use crate::spelling::is_space;
use std::alloc::AllocError;

impl Reading {
    /// Reads a byte in a list of missing revisions.
    pub(crate) fn in_revs(&mut self, place: RevPlace, byte: u8) -> Result<(), AllocError>
        ensures { OnOk result (state_of self.new ≡ in_revs place (state_of self.old) byte) }
    {
        match place {
            RevPlace::List => {
                self.at_revs(byte);
                Ok(())
            }
            RevPlace::First => self.at_first_rev(byte),
            RevPlace::Next => self.at_next_rev(byte),
            RevPlace::Rev => self.in_missing(byte),
            RevPlace::Escape => self.in_missing_escape(byte),
            RevPlace::Behind => {
                self.after_missing(byte);
                Ok(())
            }
        }
    }

    /// Reads a byte before the opening bracket of a list of missing revisions.
    fn at_revs(&mut self, byte: u8)
        ensures { state_of self.new ≡ at_revs (state_of self.old) byte }
    {
        if is_space(byte) {
            return;
        }
        if byte == b'[' {
            self.stand_at(Place::Revs(RevPlace::First));
        } else {
            self.refuse(Refusal::NoAnswer);
        }
    }

    /// Reads a byte after the opening bracket of a list of missing revisions.
    fn at_first_rev(&mut self, byte: u8) -> Result<(), AllocError>
        ensures { OnOk result (state_of self.new ≡ at_first_rev (state_of self.old) byte) }
    {
        if byte == b']' {
            self.stand_at(Place::AfterMember);
            return Ok(());
        }
        self.at_next_rev(byte)
    }

    /// Reads a byte after a comma in a list of missing revisions.
    fn at_next_rev(&mut self, byte: u8) -> Result<(), AllocError>
        ensures { OnOk result (state_of self.new ≡ at_next_rev (state_of self.old) byte) }
    {
        if is_space(byte) {
            return Ok(());
        }
        if byte != b'"' {
            self.refuse(Refusal::NoAnswer);
            return Ok(());
        }
        self.place = Place::Revs(RevPlace::Rev);
        self.text.clear();
        self.add(byte)
    }

    /// Reads a byte of a string in a list of missing revisions.
    fn in_missing(&mut self, byte: u8) -> Result<(), AllocError>
        ensures { OnOk result (state_of self.new ≡ in_missing (state_of self.old) byte) }
    {
        self.add(byte)?;
        match byte {
            b'"' => return self.end_missing(),
            b'\\' => self.stand_at(Place::Revs(RevPlace::Escape)),
            _ => {}
        }
        Ok(())
    }

    /// Reports the complete string of a missing revision, or rejects the string if it is not JSON.
    fn end_missing(&mut self) -> Result<(), AllocError>
        ensures { OnOk result (state_of self.new ≡ missing_ended (state_of self.old)) }
    {
        if self.is_json()? {
            self.found = Found::Rev;
            self.stand_at(Place::Revs(RevPlace::Behind));
        } else {
            self.refuse(Refusal::NotJson);
        }
        Ok(())
    }

    /// Reads the byte after a backslash in a string of a list of missing revisions.
    fn in_missing_escape(&mut self, byte: u8) -> Result<(), AllocError>
        ensures { OnOk result (state_of self.new ≡ in_missing_escape (state_of self.old) byte) }
    {
        self.add(byte)?;
        self.stand_at(Place::Revs(RevPlace::Rev));
        Ok(())
    }

    /// Reads a byte after a string in a list of missing revisions.
    fn after_missing(&mut self, byte: u8)
        ensures { state_of self.new ≡ after_missing (state_of self.old) byte }
    {
        if is_space(byte) {
            return;
        }
        match byte {
            b',' => self.stand_at(Place::Revs(RevPlace::Next)),
            b']' => self.stand_at(Place::AfterMember),
            _ => self.refuse(Refusal::NotJson),
        }
    }
}
