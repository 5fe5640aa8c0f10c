//! Packs short signatures into two integers.
ghost use Rattle.std.specs.Prelude.{◌≡◌, ◌<◌, ◌≤◌, ◌++◌, true, length, IfSome, is_some, nat_le};
ghost use Rattle.std.specs.List.{list_all};
ghost use Rattle.rev_core.specs.Sig.{is_sig};
ghost use Rattle.rev_core.specs.ShortSig.{bytes_in, digit_of, digits_of, is_hex_digit, is_short, text_in};

use crate::sig::Sig;

/// The number of hexadecimal digits of an MD5 digest.
const DIGITS: usize = 32;

/// The number of bytes in two 64-bit integers.
const ROOM: usize = 16;

/// A short signature, packed into two little-endian integers of eight bytes. `len` is the number of bytes of the
/// signature. If `len` is 0, the signature is the 32 hexadecimal digits of the 16 packed bytes.
#[derive(Clone, Copy)]
pub(crate) struct ShortSig {
    pub(crate) len: u8,
    pub(crate) front: u64,
    pub(crate) back: u64,
}

impl ShortSig {
    /// Packs a signature, or returns `None` if the signature is not short.
    pub(crate) fn of(sig: &Sig) -> Option<ShortSig>
        ensures text { IfSome result (λ s. text_in s.len s.front s.back ≡ sig.now) }
        ensures short { is_some result ≡ is_short sig.now }
    {
        let text = sig.bytes();
        if text.len() == DIGITS {
            let (bytes, all) = joined(text);
            if !all {
                return None;
            }
            return Some(ShortSig::new(0, &bytes));
        }
        if text.len() > ROOM {
            return None;
        }
        Some(ShortSig::new(text.len() as u8, &sig.front()))
    }

    /// Packs sixteen bytes and the length of a signature.
    fn new(len: u8, bytes: &[u8; ROOM]) -> ShortSig
        ensures len { result.len ≡ len }
        ensures bytes { bytes_in result.front result.back ≡ bytes.now }
    {
        ShortSig {
            len,
            front: u64::from_le_bytes([
                bytes[0], bytes[1], bytes[2], bytes[3], bytes[4], bytes[5], bytes[6], bytes[7],
            ]),
            back: u64::from_le_bytes([
                bytes[8], bytes[9], bytes[10], bytes[11], bytes[12], bytes[13], bytes[14],
                bytes[15],
            ]),
        }
    }

    /// Unpacks the sixteen bytes.
    fn bytes(&self) -> [u8; ROOM]
        ensures { result ≡ bytes_in self.now.front self.now.back }
    {
        let front = self.front.to_le_bytes();
        let back = self.back.to_le_bytes();
        [
            front[0], front[1], front[2], front[3], front[4], front[5], front[6], front[7],
            back[0], back[1], back[2], back[3], back[4], back[5], back[6], back[7],
        ]
    }

    /// Unpacks the signature.
    pub(crate) fn sig(&self) -> Sig
        requires { is_sig (text_in self.now.len self.now.front self.now.back) ≡ true }
        ensures { result ≡ text_in self.now.len self.now.front self.now.back }
    {
        let bytes = self.bytes();
        let parsed = if self.len == 0 {
            Sig::parse(&digits_of(&bytes))
        } else {
            let len = ROOM.min(self.len as usize);
            Sig::parse(&bytes[..len])
        };
        parsed.unwrap()
    }
}

/// Whether a byte is a digit or a letter from `a` to `f`.
fn is_hex_digit(b: u8) -> bool
    ensures { result ≡ is_hex_digit b }
{
    (b >= b'0') & (b <= b'9') | (b >= b'a') & (b <= b'f')
}

/// Returns whether each of 32 bytes is a hexadecimal digit, and the 16 bytes that these digits encode. The first half
/// of the string has the high digits of all packed bytes, and the second half has the low digits.
fn joined(text: &[u8]) -> ([u8; ROOM], bool)
    requires { length text.now ≡ 32 }
    ensures all { result.1 ≡ list_all is_hex_digit text.now }
    ensures bytes { result.1 ≡ true → digits_of result.0 ≡ text.now }
{
    let mut bytes = [0; ROOM];
    let mut all = true;
    // The loop has no early exit, so that the compiler can process many bytes per instruction.
    for i in 0..ROOM {
        let (high, low) = (text[i], text[i + ROOM]);
        all = is_hex_digit(high) & is_hex_digit(low) & all;
        bytes[i] = value_of(high) * 16 + value_of(low);
    }
    (bytes, all)
}

/// Returns the value of a hexadecimal digit. If the byte is not a digit, the returned value is unspecified, but below
/// 16.
fn value_of(digit: u8) -> u8
    ensures low { result < 16 }
    ensures digit { is_hex_digit digit ≡ true → digit_of result ≡ digit }
{
    if digit <= b'9' {
        digit.wrapping_sub(b'0') % 16
    } else {
        digit.wrapping_sub(b'a' - 10) % 16
    }
}

/// Formats packed bytes as hexadecimal digits. The first 16 digits are the high digits of the bytes, and the last 16
/// digits are the low digits.
fn digits_of(bytes: &[u8; ROOM]) -> [u8; DIGITS]
    ensures { result ≡ digits_of bytes.now }
{
    let mut text = [0; DIGITS];
    for i in 0..DIGITS {
        text[i] = if i < ROOM {
            digit_of(bytes[i] / 16)
        } else {
            digit_of(bytes[i - ROOM] % 16)
        };
    }
    text
}

/// Returns the hexadecimal digit of a value below 16.
fn digit_of(value: u8) -> u8
    requires { value < 16 }
    ensures { result ≡ digit_of value }
{
    if value < 10 {
        value + b'0'
    } else {
        value - 10 + b'a'
    }
}
