//! Parsing lists of revisions.
ghost use Rattle.std.specs.Prelude.{◌≡◌, List, IfOk, IfSome, IfNone, true, false};
ghost use Rattle.rev_core.specs.Rev.{IsRev, RevId};
ghost use Rattle.rev_core.specs.Text.{rev_text};
ghost use Rattle.rev_core.specs.Ancestry.{FallsByOne};
ghost use Rattle.output_parser.specs.Words.{IsRevs};

use crate::cuts::cut_first;
use rev_core::Rev;
use std::alloc::{AllocError, Global};

/// Parses a revision, or returns `None` if the text is not a revision.
pub fn revision(text: &[u8]) -> Option<Rev>
    ensures some { IfSome result (λ r. (rev_text r ≡ text.now) × IsRev r) }
    ensures none { IfNone result ((r : RevId) → IsRev r → rev_text r ≡ text.now → ⊥) }
{
    match Rev::parse(text) {
        Ok(rev) => {
            let _generation = rev.generation();
            Some(rev)
        }
        Err(_) => None,
    }
}

/// Parses a comma-separated list of revisions. Returns `None` if the text is not a list of revisions.
pub fn read_revs(alloc: Global, text: &[u8]) -> Result<Option<Vec<Rev>>, AllocError>
    ensures some { IfOk result (λ o. IfSome o (λ v. IsRevs text.now v.items)) }
    ensures none { IfOk result (λ o. IfNone o ((revs : List RevId) → IsRevs text.now revs → ⊥)) }
{
    let mut revs = Vec::new(alloc);
    let mut rest = text;
    while let Some((word, more)) = cut_first(rest, b',') {
        let Some(rev) = revision(word) else {
            return Ok(None);
        };
        revs.push(rev)?;
        rest = more;
    }
    let Some(rev) = revision(rest) else {
        return Ok(None);
    };
    revs.push(rev)?;
    Ok(Some(revs))
}

/// Whether the generations of the revisions in a list fall by one from each revision to the next.
pub fn falls_by_one(revs: &[Rev]) -> bool
    ensures yes { result ≡ true → FallsByOne revs.now }
    ensures no { result ≡ false → FallsByOne revs.now → ⊥ }
{
    for i in (1..revs.len()).rev() {
        if u64::from(revs[i - 1].generation()) != u64::from(revs[i].generation()) + 1 {
            return false;
        }
    }
    true
}
