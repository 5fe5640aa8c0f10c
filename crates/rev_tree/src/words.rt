//! Compares signatures eight bytes at a time.
ghost use Rattle.std.specs.Prelude.{◌≡◌, ◌+◌, ◌≤◌, true, drop, length, nat_eq};
ghost use Rattle.std.specs.Cmp.Lexicographic.{pointwise};
ghost use Rattle.rev_core.specs.Sig.{is_sig};
ghost use Rattle.rev_tree.specs.Words.{front_of};

/// The number of bytes of a signature that are compared as one integer.
const WORD: usize = 8;

/// The number of digits of an MD5 digest, which is the length of most signatures.
const DIGITS: usize = 32;

/// Returns the first eight bytes of a signature as a big-endian integer. A shorter signature is padded with zeros at
/// its end.
pub(crate) fn front_of(text: &[u8]) -> u64
    ensures { result ≡ front_of 8 text.now }
{
    if text.len() >= WORD {
        return word_at(text, 0);
    }
    let mut bytes = [0; WORD];
    bytes[..text.len()].copy_from_slice(text);
    u64::from_be_bytes(bytes)
}

/// Whether two signatures are equal.
///
/// If both signatures have the length `DIGITS` of an MD5 digest, the call compares four pairs of integers without a
/// loop.
pub(crate) fn is_same(one: &[u8], other: &[u8]) -> bool
    requires one { is_sig one.now ≡ true }
    requires other { is_sig other.now ≡ true }
    ensures { result ≡ pointwise nat_eq one.now other.now }
{
    if one.len() != other.len() {
        return false;
    }
    if one.len() != DIGITS {
        return one == other;
    }
    (word_at(one, 0) == word_at(other, 0))
        & (word_at(one, 8) == word_at(other, 8))
        & (word_at(one, 16) == word_at(other, 16))
        & (word_at(one, 24) == word_at(other, 24))
}

/// Returns the eight bytes from index `at` as a big-endian integer.
fn word_at(text: &[u8], at: usize) -> u64
    requires { at + 8 ≤ length text.now }
    ensures { result ≡ front_of 8 (drop at text.now) }
{
    u64::from_be_bytes([
        text[at],
        text[at + 1],
        text[at + 2],
        text[at + 3],
        text[at + 4],
        text[at + 5],
        text[at + 6],
        text[at + 7],
    ])
}
