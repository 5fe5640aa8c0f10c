//! Computes the revision ids of local edits.
ghost use Rattle.std.specs.Prelude.{◌≡◌, IfOk};
ghost use Rattle.hex.specs.Hex.{encode_lower};
ghost use Rattle.rev_core.specs.Rev.{IsRev};
ghost use Rattle.rev_core.specs.Answers.{GivesUnlessMemory};
ghost use Rattle.rev_core.specs.NewRev.{edit_rev, edit_sig, kind_text, parent_text};

use crate::fault::RevFault;
use crate::rev::Rev;
use crate::sig::Sig;
use md5::{Digest, Md5};
use std::alloc::{AllocError, Global};

/// Computes the revision id of a local edit. The new generation is one above the parent's generation. The signature is
/// a digest of the parent, the deleted flag and the serialized body.
///
/// # Errors
///
/// - `GenerationFull`: the parent has the greatest generation, 4,294,967,295.
/// - `Memory`: an allocation failed.
pub fn new_rev(
    alloc: Global,
    parent: Option<Rev>,
    deleted: bool,
    body: &[u8],
) -> Result<Rev, RevFault>
    ensures answer { GivesUnlessMemory result (edit_rev parent deleted body.now) }
    ensures is_rev { IfOk result IsRev }
{
    let generation = match parent {
        Some(rev) => rev.generation(),
        None => 0,
    };
    if generation == u32::MAX {
        return Err(RevFault::GenerationFull);
    }
    let sig = edit_sig(alloc, parent, deleted, body)?;
    Ok(Rev::new(generation + 1, sig))
}

/// Computes the digest of three strings, separated by line feeds: the parent's string, `live` or `deleted`, and the
/// body.
fn edit_sig(
    alloc: Global,
    parent: Option<Rev>,
    deleted: bool,
    body: &[u8],
) -> Result<Sig, AllocError>
    ensures { IfOk result (λ s. s ≡ edit_sig parent deleted body.now) }
{
    let before = parent_text(alloc, parent)?;
    let mut hasher = Md5::new();
    hasher.update(before.as_slice());
    hasher.update(b"\n");
    hasher.update(kind_text(deleted));
    hasher.update(b"\n");
    hasher.update(body);
    Ok(digits(&hasher.finalize()))
}

/// Returns the parent's string, or an empty string if there is no parent.
fn parent_text(alloc: Global, parent: Option<Rev>) -> Result<Vec<u8>, AllocError>
    ensures { IfOk result (λ v. v.items ≡ parent_text parent) }
{
    match parent {
        Some(rev) => rev.write(alloc),
        None => Ok(Vec::new(alloc)),
    }
}

/// Returns `deleted` or `live`.
fn kind_text(deleted: bool) -> &'static [u8]
    ensures { result.now ≡ kind_text deleted }
{
    if deleted { b"deleted" } else { b"live" }
}

/// Formats a digest as lower-case hexadecimal digits.
fn digits(digest: &[u8; 16]) -> Sig
    ensures { result ≡ encode_lower digest.now }
{
    let mut text = [0; 32];
    hex::encode_to_slice(digest.as_slice(), &mut text).unwrap();
    Sig::parse(&text).unwrap()
}
