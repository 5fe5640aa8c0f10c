//! Computes the line that ends a block and has the block's checksum.
ghost use Rattle.std.specs.Prelude.{◌≡◌, ◌+◌, ◌++◌, ℕ, List, IfOk, bytes_eq, codes, drop, string_bytes};
ghost use Rattle.sha2.specs.Sha256.{sha256};
ghost use Rattle.hex.specs.Hex.{encode_lower};
ghost use Rattle.journal_core.specs.Journal.{block_hash, is_sum, sum_head, sum_line};

use itoa::Buffer;
use sha2::{Digest, Sha256};
use std::alloc::{AllocError, Global};

/// The start of each line that ends a block.
const SUM: &[u8; 4] = b"sum ";

/// The number of hexadecimal digits of a block's hash.
const HASH: usize = 64;

/// Whether a line of a journal ends a block.
pub(crate) fn is_sum(line: &[u8]) -> bool
    ensures { result ≡ is_sum line.now }
{
    line.starts_with(SUM.as_slice())
}

/// Returns the sum of two counts.
///
/// # Errors
///
/// Returns an error if the sum exceeds the maximum of a `u64`.
pub fn added(count: u64, more: u64) -> Result<u64, AllocError>
    ensures { IfOk result (λ sum. sum ≡ count + more) }
{
    match count.checked_add(more) {
        Some(sum) => Ok(sum),
        None => Err(AllocError),
    }
}

pub(crate) fn is_same(line: &[u8], other: &[u8]) -> bool
    ensures { result ≡ bytes_eq line.now other.now }
{
    line == other
}

/// Returns the hash of a block: the digest of the previous block's hash, the block's sequence, and the block's lines.
pub(crate) fn hash_of(
    alloc: Global,
    chain: &[u8],
    seq: &[u8],
    body: &[u8],
) -> Result<String, AllocError>
    ensures { IfOk result (λ hash. string_bytes hash ≡ block_hash chain.now seq.now body.now) }
{
    let mut hasher = hasher_of(chain, seq);
    hasher.update(body);
    hex_of(alloc, hasher)
}

/// Returns a hasher that has read the previous block's hash and the block's sequence.
pub(crate) fn hasher_of(chain: &[u8], seq: &[u8]) -> Sha256
    ensures { ⟦<Sha256 as Digest>⟧.holds result (chain.now ++ codes " " ++ seq.now ++ codes "\n") }
{
    let mut hasher = Sha256::new();
    hasher.update(chain);
    hasher.update(b" ".as_slice());
    hasher.update(seq);
    hasher.update(b"\n".as_slice());
    hasher
}

/// Returns the digest of a hasher in hexadecimal digits.
pub(crate) fn hex_of(alloc: Global, hasher: Sha256) -> Result<String, AllocError>
    ensures { IfOk result (λ text. (m : List ℕ) → ⟦<Sha256 as Digest>⟧.holds hasher m → string_bytes text ≡ encode_lower (sha256 m)) }
{
    let digest = hasher.finalize();
    hex::encode(alloc, digest.as_slice())
}

pub(crate) fn sum_head(alloc: Global, count: u64) -> Result<Vec<u8>, AllocError>
    ensures { IfOk result (λ head. head.items ≡ sum_head count) }
{
    let mut digits = Buffer::new();
    let mut head = Vec::from_slice(alloc, SUM.as_slice())?;
    head.extend_from_slice(digits.format(count).as_bytes())?;
    head.push(b' ')?;
    Ok(head)
}

/// Returns the line that ends a block of `count` lines.
pub(crate) fn sum_line(
    alloc: Global,
    count: u64,
    hash: &[u8],
    seq: &[u8],
) -> Result<Vec<u8>, AllocError>
    ensures { IfOk result (λ line. line.items ≡ sum_line count hash.now seq.now) }
{
    let mut line = sum_head(alloc, count)?;
    line.extend_from_slice(hash)?;
    line.push(b' ')?;
    line.extend_from_slice(seq)?;
    Ok(line)
}

/// Skips the first `head` bytes of a line, the 64 digits of a hash and a blank, and returns all further bytes.
pub(crate) fn seq_in(head: usize, line: &[u8]) -> &[u8]
    ensures { result.now ≡ drop (head + 65) line.now }
{
    if line.len() <= HASH || head >= line.len() - HASH {
        return b"".as_slice();
    }
    &line[head + HASH + 1..]
}
