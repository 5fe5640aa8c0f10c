//! A signature is the part of a revision id after the first `-`.
ghost use Rattle.std.specs.Prelude.{◌≡◌, ◌≤◌, ◌∷◌, ◌++◌, [], true, length, nat_eq};
ghost use Rattle.std.specs.List.{list_all};
ghost use Rattle.std.specs.Ordering.{nat_cmp, as_partial_cmp};
ghost use Rattle.std.specs.Cmp;
ghost use Rattle.std.specs.Cmp.{partial_order_from_own_ties};
ghost use Rattle.std.specs.Cmp.Rules.{comparing, hashing};
ghost use Rattle.std.specs.Cmp.Lexicographic.{pointwise, slice_cmp};
ghost use Rattle.std.proofs.Common.{rules};
ghost use Rattle.std.proofs.lemmas.Cmp.{nat_list_eq_equiv};
ghost use Rattle.rev_core.specs.Sig.{is_sig, is_sig_byte, padded};

use crate::fault::RevFault;
use std::cmp::Ordering;
use std::hash::{Hash, Hasher};
use std::marker::Model;

/// The maximum number of bytes of a signature.
const MOST_BYTES: usize = 64;

/// A signature: 1 to 64 bytes, each an ASCII letter, a digit, `-`, `_` or `.`.
///
/// A `Sig` has a fixed size, and stores the signature followed by zeros. Signatures are ordered by their bytes.
#[derive(Clone, Copy, Debug)]
pub struct Sig {
    bytes: [u8; 64],
    len: u8,
}

impl Model for Sig {
    ghost use Rattle.std.specs.Prelude.{List, ℕ, take, length};

    ghost Value = { List ℕ };

    ghost use Rattle.rev_core.specs.Sig.{IsStored, padded};
    ghost use Rattle.rev_core.specs.Stored.{padded_back};

    ghost view = { λ s. take s.len s.bytes };

    ghost invariant = { λ s. IsStored s.bytes s.len };

    ghost inverse = { λ text. record { bytes = padded text; len = length text } };

    ghost inverse_ok = { padded_back };
}

impl Sig {
    ghost use Rattle.std.specs.Prelude.{take, drop};
    ghost use Rattle.rev_core.specs.Sig.{sig_read, is_sig, IsStored};

    /// Parses a signature. Returns `BadSig` if the string is not a signature.
    pub fn parse(text: &[u8]) -> Result<Sig, RevFault>
        ensures { result ≡ sig_read text.now }
    {
        if !is_sig(text) {
            return Err(RevFault::BadSig);
        }
        Ok(Sig {
            bytes: padded(text),
            len: text.len() as u8,
        })
    }

    /// Returns the bytes of the signature.
    pub fn bytes(&self) -> &[u8]
        ensures text { result.now ≡ self.now }
        ensures sig { is_sig self.now ≡ true }
    {
        &self.bytes[..self.len as usize]
    }

    /// Returns the number of bytes of the signature.
    pub(crate) fn len(&self) -> u8
        ensures { result ≡ length self.now }
    {
        self.len
    }

    /// Returns the first 32 bytes of the signature, with zeros after the end of a shorter signature.
    pub(crate) fn head(&self) -> &[u8]
        ensures { result.now ≡ take 32 (padded self.now) }
    {
        &self.bytes[..32]
    }

    /// Returns the second half of the 64 bytes that store the signature. Bytes after the end of the signature are zero.
    pub(crate) fn tail(&self) -> &[u8]
        ensures { result.now ≡ drop 32 (padded self.now) }
    {
        &self.bytes[32..]
    }

    /// Copies the first 32 bytes of the signature, with zeros after the end of a shorter signature.
    pub(crate) fn half(&self) -> [u8; 32]
        ensures { result ≡ take 32 (padded self.now) }
    {
        // An array expression takes fewer instructions than a call of `copy_from_slice`. After a call of
        // `copy_from_slice`, the compiler copies the written array a second time.
        let head = &self.bytes;
        [
            head[0], head[1], head[2], head[3], head[4], head[5], head[6], head[7], head[8],
            head[9], head[10], head[11], head[12], head[13], head[14], head[15], head[16],
            head[17], head[18], head[19], head[20], head[21], head[22], head[23], head[24],
            head[25], head[26], head[27], head[28], head[29], head[30], head[31],
        ]
    }

    /// Creates a signature of `len` bytes from the halves `head` and `tail` of 32 bytes each. The bytes of `head`,
    /// followed by those of `tail`, must be the signature and then zeros.
    pub(crate) fn of_halves(head: &[u8], tail: &[u8], len: u8) -> Sig
        requires head { length head.now ≡ 32 }
        requires tail { length tail.now ≡ 32 }
        requires stored { IsStored (head.now ++ tail.now) len }
        ensures { result ≡ take len (head.now ++ tail.now) }
    {
        // An array expression takes fewer instructions than two calls of `copy_from_slice`.
        let bytes = [
            head[0], head[1], head[2], head[3], head[4], head[5], head[6], head[7], head[8],
            head[9], head[10], head[11], head[12], head[13], head[14], head[15], head[16],
            head[17], head[18], head[19], head[20], head[21], head[22], head[23], head[24],
            head[25], head[26], head[27], head[28], head[29], head[30], head[31], tail[0], tail[1],
            tail[2], tail[3], tail[4], tail[5], tail[6], tail[7], tail[8], tail[9], tail[10],
            tail[11], tail[12], tail[13], tail[14], tail[15], tail[16], tail[17], tail[18],
            tail[19], tail[20], tail[21], tail[22], tail[23], tail[24], tail[25], tail[26],
            tail[27], tail[28], tail[29], tail[30], tail[31],
        ];
        Sig { bytes, len }
    }

    /// Returns the first sixteen bytes of the signature, with zeros after the end of a shorter signature.
    pub(crate) fn front(&self) -> [u8; 16]
        ensures { result ≡ take 16 (padded self.now) }
    {
        let bytes = &self.bytes;
        [
            bytes[0], bytes[1], bytes[2], bytes[3], bytes[4], bytes[5], bytes[6], bytes[7],
            bytes[8], bytes[9], bytes[10], bytes[11], bytes[12], bytes[13], bytes[14], bytes[15],
        ]
    }
}

impl PartialEq for Sig {
    ghost eq = { pointwise nat_eq };

    ghost laws = { Cmp.partial_equiv_from_equiv nat_list_eq_equiv };

    fn eq(&self, other: &Sig) -> bool {
        self.bytes() == other.bytes()
    }
}

impl Eq for Sig {
    ghost laws = { nat_list_eq_equiv };
}

impl PartialOrd for Sig {
    ghost partial_cmp = { as_partial_cmp (slice_cmp nat_cmp) };

    ghost laws = { partial_order_from_own_ties (Prim.search (comparing, rules)) (Prim.search (comparing, rules)) };

    fn partial_cmp(&self, other: &Sig) -> Option<Ordering> {
        Some(self.cmp(other))
    }
}

impl Ord for Sig {
    ghost cmp = { slice_cmp nat_cmp };

    ghost total = { Prim.search (comparing, rules) };

    ghost matches_partial_cmp = { Prim.search (comparing, rules) };

    ghost matches_eq = { Prim.search (comparing, rules) };

    fn cmp(&self, other: &Sig) -> Ordering {
        // The comparison begins with the first byte, because most pairs of compared signatures have different first
        // bytes.
        let (first, against) = (self.bytes[0], other.bytes[0]);
        if first != against {
            return first.cmp(&against);
        }
        self.bytes().cmp(other.bytes())
    }
}

impl Hash for Sig {
    ghost hash_input = { λ sig. sig ∷ [] };

    ghost respects_eq = { Prim.search (hashing, rules) };

    fn hash<H: Hasher>(&self, state: &mut H) {
        state.write(self.bytes());
    }
}

/// Whether a string is a signature.
fn is_sig(text: &[u8]) -> bool
    ensures { result ≡ is_sig text.now }
{
    let all = all_sig_bytes(text);
    1 <= text.len() && text.len() <= MOST_BYTES && all
}

/// Whether each byte of a string is allowed in a signature.
fn all_sig_bytes(text: &[u8]) -> bool
    ensures { result ≡ list_all is_sig_byte text.now }
{
    let mut all = true;
    // The loop has no early exit, so that the compiler can process many bytes per instruction.
    for b in text {
        all = is_sig_byte(*b) & all;
    }
    all
}

/// Whether a byte is allowed in a signature.
fn is_sig_byte(b: u8) -> bool
    ensures { result ≡ is_sig_byte b }
{
    b.is_ascii_alphanumeric() || b == b'-' || b == b'_' || b == b'.'
}

/// Returns 64 bytes, which are the bytes of the string followed by zeros.
fn padded(text: &[u8]) -> [u8; 64]
    requires { length text.now ≤ 64 }
    ensures { result ≡ padded text.now }
{
    let mut bytes = [0; 64];
    if text.len() == 32 {
        // Most signatures are the 32 digits of a digest. The compiler can inline a copy of exactly 32 bytes.
        bytes[..32].copy_from_slice(text);
    } else {
        bytes[..text.len()].copy_from_slice(text);
    }
    bytes
}
