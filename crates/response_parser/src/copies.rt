//! Copies several bytes of a JSON value to the parser's text at once.
ghost use Rattle.std.specs.Prelude.{◌≡◌, ◌+◌, ◌<◌, ◌≤◌, ◌==◌, ◌&&◌, ◌||◌, nat_le, [], length, take, get_or, true, false, IfOk, OnOk};
ghost use Rattle.response_parser.specs.Stored.{state_of};
ghost use Rattle.response_parser.specs.Reading.{after, pieces};
ghost use Rattle.response_parser.specs.Runs.{Continues, in_value_of};
ghost use Rattle.response_parser.specs.declared.place.Found.TheVariants.{Nothing};

use crate::place::{Name, Place};
use crate::reading::Reading;
use crate::values::MAX_NESTING;
use json_values::plain_end;
use std::alloc::AllocError;

/// A position in the input bytes that the parser is copying to the current JSON value.
#[derive(Clone, Copy)]
struct Spot {
    /// The number of input bytes before this position.
    count: usize,
    /// Whether this position is inside a JSON string.
    quoted: bool,
    /// The number of brackets of the JSON value that are open at this position.
    nesting: u8,
}

impl Spot {
    /// Finds the next bytes of a JSON value that can be copied at once, and returns the position after them. Returns
    /// `self` if the parser must read the next byte separately.
    #[inline(always)]
    fn next(self, bytes: &[u8]) -> Spot
        requires { self.count < length bytes.now }
        ensures within { (self.count ≤ result.count) × (result.count ≤ length bytes.now) }
        ensures continues { Continues bytes.now self.count self.quoted self.nesting result.count result.quoted
            result.nesting }
    {
        if self.quoted {
            self.in_string(bytes)
        } else {
            self.outside(bytes)
        }
    }

    /// Returns the position after the next quotation mark or two-byte escape in a string. The call stops before a
    /// control byte. The call also stops before the last input byte if this byte is a quotation mark or a backslash.
    /// Returns the end of the input bytes if they have no further quotation mark, backslash or control byte.
    #[inline(always)]
    fn in_string(self, bytes: &[u8]) -> Spot
        requires within { self.count < length bytes.now }
        requires quoted { self.quoted ≡ true }
        ensures within { (self.count ≤ result.count) × (result.count ≤ length bytes.now) }
        ensures continues { Continues bytes.now self.count self.quoted self.nesting result.count result.quoted
            result.nesting }
    {
        let end = plain_end(bytes, self.count);
        let plain = Spot { count: end, ..self };
        if bytes.len() - end < 2 {
            plain
        } else {
            plain.after_string(bytes)
        }
    }

    /// Returns the position after a quotation mark or an escape in a string.
    #[inline(always)]
    fn after_string(self, bytes: &[u8]) -> Spot
        requires within { self.count + 1 < length bytes.now }
        requires quoted { self.quoted ≡ true }
        ensures within { (self.count ≤ result.count) × (result.count ≤ length bytes.now) }
        ensures continues { Continues bytes.now self.count self.quoted self.nesting result.count result.quoted
            result.nesting }
    {
        let byte = bytes[self.count];
        if byte == b'"' {
            Spot {
                count: self.count + 1,
                quoted: false,
                nesting: self.nesting,
            }
        } else if byte == b'\\' {
            Spot {
                count: self.count + 2,
                ..self
            }
        } else {
            self
        }
    }

    /// Returns the position after the next byte of a value, which is not inside a string. Returns `self` if the parser
    /// must read the byte separately.
    #[inline(always)]
    fn outside(self, bytes: &[u8]) -> Spot
        requires within { self.count < length bytes.now }
        requires outside { self.quoted ≡ false }
        ensures within { (self.count ≤ result.count) × (result.count ≤ length bytes.now) }
        ensures continues { Continues bytes.now self.count self.quoted self.nesting result.count result.quoted
            result.nesting }
    {
        let byte = bytes[self.count];
        if self.nesting == 0 {
            self
        } else if is_solid(byte) {
            Spot {
                count: self.count + 1,
                ..self
            }
        } else {
            self.past_sign(bytes, byte)
        }
    }

    /// Returns the position after `byte`, which is not inside a string. Returns `self` if the parser must read the byte
    /// separately. The result depends on whether `byte` is a quotation mark, a bracket, a blank or another byte.
    #[inline(always)]
    fn past_sign(self, bytes: &[u8], byte: u8) -> Spot
        requires within { self.count < length bytes.now }
        requires outside { self.quoted ≡ false }
        requires begun { (self.nesting == 0) ≡ false }
        requires byte { byte ≡ get_or bytes.now self.count 0 }
        ensures within { (self.count ≤ result.count) × (result.count ≤ length bytes.now) }
        ensures continues { Continues bytes.now self.count self.quoted self.nesting result.count result.quoted
            result.nesting }
    {
        if byte == b'"' {
            Spot {
                count: self.count + 1,
                quoted: true,
                nesting: self.nesting,
            }
        } else if is_opening(byte) {
            self.opened(bytes)
        } else if is_closing(byte) {
            self.closed(bytes)
        } else if is_line_space(byte) {
            self
        } else {
            Spot {
                count: self.count + 1,
                ..self
            }
        }
    }

    /// Returns the position after an opening bracket. If `MAX_NESTING` brackets are open, the call returns `self`, the
    /// position before the bracket.
    #[inline(always)]
    fn opened(self, bytes: &[u8]) -> Spot
        requires within { self.count < length bytes.now }
        requires outside { self.quoted ≡ false }
        requires opens { (get_or bytes.now self.count 0 == 123 || get_or bytes.now self.count 0 == 91) ≡ true }
        ensures within { (self.count ≤ result.count) × (result.count ≤ length bytes.now) }
        ensures continues { Continues bytes.now self.count self.quoted self.nesting result.count result.quoted
            result.nesting }
    {
        if self.nesting < MAX_NESTING {
            Spot {
                count: self.count + 1,
                quoted: false,
                nesting: self.nesting + 1,
            }
        } else {
            self
        }
    }

    /// Returns the position after a closing bracket. If the bracket ends the JSON value, the call returns `self`, the
    /// position before the bracket.
    #[inline(always)]
    fn closed(self, bytes: &[u8]) -> Spot
        requires within { self.count < length bytes.now }
        requires outside { self.quoted ≡ false }
        requires closes { (get_or bytes.now self.count 0 == 125 || get_or bytes.now self.count 0 == 93) ≡ true }
        ensures within { (self.count ≤ result.count) × (result.count ≤ length bytes.now) }
        ensures continues { Continues bytes.now self.count self.quoted self.nesting result.count result.quoted
            result.nesting }
    {
        if self.nesting > 1 {
            Spot {
                count: self.count + 1,
                quoted: false,
                nesting: self.nesting - 1,
            }
        } else {
            self
        }
    }
}

/// Whether a byte is from `#` to `Z` or from `a` to `z`. These ranges have no quotation mark, no bracket and no white
/// space.
#[inline(always)]
fn is_solid(byte: u8) -> bool
    ensures { result ≡ (nat_le 35 byte && nat_le byte 90 || nat_le 97 byte && nat_le byte 122) }
{
    byte >= b'#' && byte <= b'Z' || byte >= b'a' && byte <= b'z'
}

/// Whether a byte is a tab, a line feed or a carriage return.
#[inline(always)]
fn is_line_space(byte: u8) -> bool
    ensures { result ≡ (byte == 9 || byte == 10 || byte == 13) }
{
    byte == b'\t' || byte == b'\n' || byte == b'\r'
}

/// Whether a byte is an opening bracket.
#[inline(always)]
fn is_opening(byte: u8) -> bool
    ensures { result ≡ (byte == 123 || byte == 91) }
{
    byte == b'{' || byte == b'['
}

/// Whether a byte is a closing bracket.
#[inline(always)]
fn is_closing(byte: u8) -> bool
    ensures { result ≡ (byte == 125 || byte == 93) }
{
    byte == b'}' || byte == b']'
}

/// Returns the position up to which the parser can copy the input bytes to the current value.
#[inline(always)]
fn spot_after(bytes: &[u8], quoted: bool, nesting: u8) -> Spot
    ensures within { result.count ≤ length bytes.now }
    ensures continues { Continues bytes.now 0 quoted nesting result.count result.quoted result.nesting }
{
    let mut spot = Spot {
        count: 0,
        quoted,
        nesting,
    };
    while spot.count < bytes.len() {
        let next = spot.next(bytes);
        if next.count == spot.count {
            return next;
        }
        spot = next;
    }
    spot
}

impl Reading {
    /// Copies input bytes that belong to the current value, and stops at the latest before the byte that completes the
    /// value. Returns the number of copied bytes.
    #[inline(always)]
    pub(crate) fn copy(&mut self, bytes: &[u8]) -> Result<usize, AllocError>
        requires { (state_of self.old).found ≡ Nothing }
        ensures within { IfOk result (λ count. count ≤ length bytes.now) }
        ensures state { IfOk result
            (λ count. state_of self.new ≡ after (state_of self.old) (take count bytes.now)) }
        ensures none { IfOk result (λ count. pieces (state_of self.old) (take count bytes.now) ≡ []) }
        ensures found { OnOk result ((state_of self.new).found ≡ Nothing) }
    {
        match self.place {
            Place::Quoted(name) => self.copy_value(name, true, bytes),
            Place::Value(name) => self.copy_value(name, false, bytes),
            _ => Ok(0),
        }
    }

    /// Copies the first bytes of the input that belong to the current value. Returns the number of copied bytes. The
    /// parser must be inside a value.
    fn copy_value(&mut self, name: Name, quoted: bool, bytes: &[u8]) -> Result<usize, AllocError>
        requires found { (state_of self.old).found ≡ Nothing }
        requires place { (state_of self.old).place ≡ in_value_of name quoted }
        ensures within { IfOk result (λ count. count ≤ length bytes.now) }
        ensures state { IfOk result
            (λ count. state_of self.new ≡ after (state_of self.old) (take count bytes.now)) }
        ensures none { IfOk result (λ count. pieces (state_of self.old) (take count bytes.now) ≡ []) }
        ensures found { OnOk result ((state_of self.new).found ≡ Nothing) }
    {
        if self.has_no_text() {
            return Ok(0);
        }
        let spot = spot_after(bytes, quoted, self.nesting);
        self.text.extend_from_slice(&bytes[..spot.count])?;
        self.place = if spot.quoted {
            Place::Quoted(name)
        } else {
            Place::Value(name)
        };
        self.nesting = spot.nesting;
        self.taken = self.taken.saturating_add(spot.count as u64);
        Ok(spot.count)
    }

    /// Whether the parser has read no byte of the current value yet.
    #[inline(always)]
    fn has_no_text(&self) -> bool
        ensures { result ≡ (length (state_of self.now).text == 0) }
    {
        self.text.is_empty()
    }
}
