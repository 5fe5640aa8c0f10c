//! Tests `Rev::write`, `Ancestry::from_parts`, `Ancestry::copy`, `KeptRev::keep`, and the copies of compact revisions.
use anyhow::{Result, bail};
use rev_core::{Ancestry, KeptRev, Rev, RevFault, Sig};
use std::alloc::{AllocError, Global};

/// Returns the signatures c, b and a.
fn sigs() -> Result<[Sig; 3], RevFault> {
    match (Sig::parse(b"c"), Sig::parse(b"b"), Sig::parse(b"a")) {
        (Ok(c), Ok(b), Ok(a)) => Ok([c, b, a]),
        _ => Err(RevFault::BadSig),
    }
}

/// Returns the ancestry 3-c, 2-b, 1-a.
pub(crate) fn three(alloc: Global) -> Result<Ancestry, RevFault> {
    match sigs() {
        Ok(sigs) => of_sigs(alloc, &sigs),
        Err(fault) => Err(fault),
    }
}

/// Creates the ancestry of three signatures, and retries if an allocation fails.
fn of_sigs(alloc: Global, sigs: &[Sig]) -> Result<Ancestry, RevFault> {
    match Ancestry::from_parts(alloc, 3, sigs) {
        Err(RevFault::Memory) => Ancestry::from_parts(alloc, 3, sigs),
        answer => answer,
    }
}

fn copied(alloc: Global, ancestry: &Ancestry) -> Result<Ancestry, AllocError> {
    match ancestry.copy(alloc) {
        Err(AllocError) => ancestry.copy(alloc),
        answer => answer,
    }
}

fn written(alloc: Global, rev: Rev) -> Result<Vec<u8>, AllocError> {
    match rev.write(alloc) {
        Err(AllocError) => rev.write(alloc),
        answer => answer,
    }
}

fn kept(alloc: Global, rev: &Rev) -> Result<KeptRev, AllocError> {
    match KeptRev::keep(alloc, rev) {
        Err(AllocError) => KeptRev::keep(alloc, rev),
        answer => answer,
    }
}

fn kept_copied(alloc: Global, rev: &KeptRev) -> Result<KeptRev, AllocError> {
    match rev.copy(alloc) {
        Err(AllocError) => rev.copy(alloc),
        answer => answer,
    }
}

/// Whether a copy of a compact revision is equal to the revision.
fn is_kept(alloc: Global, rev: &Rev) -> Option<bool> {
    let Ok(kept) = kept(alloc, rev) else {
        return None;
    };
    match kept_copied(alloc, &kept) {
        Ok(copy) => Some(copy.rev() == *rev),
        Err(AllocError) => None,
    }
}

/// Whether a revision with a signature of 33 bytes can be stored in compact form.
fn keeps_long(alloc: Global) -> Option<bool> {
    match Rev::parse(b"1-0123456789abcdef0123456789abcdef0") {
        Ok(long) => is_kept(alloc, &long),
        Err(_) => None,
    }
}

/// Whether a revision exists and its text is as expected.
fn is_text(alloc: Global, rev: Option<&Rev>, text: &[u8]) -> bool {
    let Some(rev) = rev else {
        return false;
    };
    match written(alloc, *rev) {
        Ok(bytes) => bytes.as_slice() == text,
        Err(AllocError) => false,
    }
}

/// The strings of the revisions 3-c, 2-b and 1-a.
static TEXTS: &[&[u8]] = &[b"3-c", b"2-b", b"1-a"];

/// Whether the texts of a list of revisions are 3-c, 2-b and 1-a.
fn are_texts(alloc: Global, revs: &[Rev]) -> bool {
    let mut same = revs.len() == TEXTS.len();
    for (i, text) in TEXTS.iter().enumerate() {
        same = same && is_text(alloc, revs.get(i), text);
    }
    same
}

/// Whether a copy of an ancestry has the ancestry's revisions, and `Rev::write` writes the revisions as 3-c, 2-b and
/// 1-a.
fn is_copied(alloc: Global, ancestry: &Ancestry) -> Option<bool> {
    let Ok(copy) = copied(alloc, ancestry) else {
        return None;
    };
    if copy.revs() != ancestry.revs() {
        return Some(false);
    }
    Some(are_texts(alloc, copy.revs()))
}

/// Calls `is_copied` for the ancestry 3-c, 2-b, 1-a.
fn three_copied(alloc: Global) -> Option<bool> {
    match three(alloc) {
        Ok(ancestry) => is_copied(alloc, &ancestry),
        Err(_) => None,
    }
}

pub(crate) fn run(rt: &impl Print, alloc: Global) -> Result<()> {
    if three_copied(alloc) != Some(true) || keeps_long(alloc) != Some(true) {
        bail!("revisions: another answer");
    }
    println!(rt; "revisions as wanted")?;
    Ok(())
}
