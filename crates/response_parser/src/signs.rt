//! Recognizes, by its first bytes, input of a known format that is not a response: gzip, HTML, HTTP headers, multipart,
//! or a byte order mark.
ghost use Rattle.std.specs.Prelude.{◌≡◌, OnOk};
ghost use Rattle.response_parser.specs.Stored.{state_of};
ghost use Rattle.response_parser.specs.Signs.{begins_sign, sign_of, in_sign, sign_begun};

use crate::place::{Place, Refusal};
use crate::reading::Reading;
use crate::spelling::is;
use std::alloc::AllocError;

impl Reading {
    /// Reads the first byte of input that is not a response, but may have another known format.
    pub(crate) fn begin_sign(&mut self, byte: u8) -> Result<(), AllocError>
        ensures { OnOk result (state_of self.new ≡ sign_begun (state_of self.old) byte) }
    {
        self.text.clear();
        self.in_sign(byte)
    }

    /// Reads a further byte of input that is not a response, but may have another known format.
    pub(crate) fn in_sign(&mut self, byte: u8) -> Result<(), AllocError>
        ensures { OnOk result (state_of self.new ≡ in_sign (state_of self.old) byte) }
    {
        self.add(byte)?;
        if begins_sign(self.text.as_slice()) {
            self.stand_at(Place::Sign);
        } else {
            let why = sign_of(self.text.as_slice());
            self.refuse(why);
        }
        Ok(())
    }
}

/// Whether a text is a proper prefix of the bytes that identify a known format, such as `HTTP/`.
fn begins_sign(text: &[u8]) -> bool
    ensures { result ≡ begins_sign text.now }
{
    is(text, b"\x1f")
        || is(text, b"<")
        || is(text, b"-")
        || is(text, b"\xef")
        || is(text, b"\xef\xbb")
        || is(text, b"\xfe")
        || is(text, b"\xff")
        || is(text, b"H")
        || is(text, b"HT")
        || is(text, b"HTT")
        || is(text, b"HTTP")
}

/// Returns the reason for rejecting input that begins with a given text, if the text identifies a known format.
fn sign_of(text: &[u8]) -> Refusal
    ensures { result ≡ sign_of text.now }
{
    if is(text, b"\x1f\x8b") {
        Refusal::Gzip
    } else if is(text, b"<!") || is(text, b"<h") || is(text, b"<H") {
        Refusal::Html
    } else if is(text, b"HTTP/") {
        Refusal::Headers
    } else if is(text, b"--") {
        Refusal::Multipart
    } else if is(text, b"\xef\xbb\xbf") || is(text, b"\xfe\xff") || is(text, b"\xff\xfe") {
        Refusal::ByteOrderMark
    } else {
        Refusal::NoAnswer
    }
}
