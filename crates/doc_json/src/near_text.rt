//! Short strings, stored inline.
ghost use Rattle.std.specs.Prelude.{◌≡◌, IfSome, is_some, nat_le, length};

use std::fmt::{Debug, Error, Formatter, Write};
use std::marker::Model;

/// The maximum number of bytes of an inline string.
const MOST_BYTES: usize = 32;

/// A string of at most 32 bytes, followed by zeros.
///
/// The length is stored in four bytes instead of eight, because a database may have millions of ids.
#[derive(Drop)]
pub(crate) struct NearText {
    len: u32,
    bytes: [u8; 32],
}

impl Model for NearText {
    ghost use Rattle.std.specs.Prelude.{◌≤◌, List, ℕ, take, IsUtf8};

    ghost Value = { List ℕ };

    ghost view = { λ t. take t.len t.bytes };

    ghost invariant = { λ t. (t.len ≤ 32) × IsUtf8 (take t.len t.bytes) };
}

impl NearText {
    /// Stores a string inline, or returns `None` if the string has more than 32 bytes.
    pub(crate) fn keep(text: &str) -> Option<NearText>
        ensures kept { IfSome result (λ t. t ≡ text.now) }
        ensures fits { is_some result ≡ nat_le (length text.now) 32 }
    {
        let len = text.len();
        if len > MOST_BYTES {
            return None;
        }
        let mut bytes = [0; 32];
        bytes[..len].copy_from_slice(text.as_bytes());
        Some(NearText {
            len: len as u32,
            bytes,
        })
    }

    /// Copies the string. The call always copies 32 bytes, so that the compiler knows the size of the copy.
    pub(crate) fn copy(&self) -> NearText
        ensures { result ≡ self.now }
    {
        NearText {
            len: self.len,
            bytes: self.bytes,
        }
    }

    /// Returns the string.
    pub(crate) fn as_str(&self) -> &str
        ensures { result.now ≡ self.now }
    {
        unsafe { std::str::from_utf8_unchecked(&self.bytes[..self.len as usize]) }
    }
}

impl Debug for NearText {
    fn fmt<W: Write>(&self, f: &mut Formatter<W>) -> Result<(), Error> {
        self.as_str().fmt(f)
    }
}
