//! Tests `Tree::merge` and the read calls that allocate. If an allocation fails, `merge` leaves the tree unchanged.
use crate::revisions;
use anyhow::{Result, bail};
use rev_core::{Ancestry, Rev, Sig};
use rev_tree::{Content, Merged, Origin, Revs, Tree, TreeFault};
use std::alloc::{AllocError, Global};
use std::sync::ArcSlice;

/// Creates a live content with a body.
fn content(alloc: Global, body: &[u8]) -> Result<Content, AllocError> {
    let text = match ArcSlice::from_slice(alloc, body) {
        Err(AllocError) => ArcSlice::from_slice(alloc, body)?,
        answer => answer?,
    };
    Ok(Content::new(false, text))
}

/// Returns the numbers of leaves and revisions, and the winner.
fn reading(tree: &Tree) -> (usize, usize, Option<Rev>) {
    (tree.leaf_count(), tree.rev_count(), tree.winner())
}

/// Merges an ancestry, and retries if an allocation fails. Returns whether a call that ran out of memory changed the
/// tree.
fn merged(
    alloc: Global,
    tree: &mut Tree,
    ancestry: &Ancestry,
) -> Result<(Merged, bool), TreeFault> {
    let before = reading(tree);
    match tree.merge(ancestry, content(alloc, b"{}")?, Origin::Local(0)) {
        Ok(answer) => Ok((answer, false)),
        Err(TreeFault::Memory) => {
            let changed = reading(tree) != before;
            let answer = tree.merge(ancestry, content(alloc, b"{}")?, Origin::Local(0))?;
            Ok((answer, changed))
        }
        Err(fault) => Err(fault),
    }
}

fn leaves(alloc: Global, tree: &Tree) -> Result<Revs, AllocError> {
    match tree.leaves(alloc) {
        Err(AllocError) => tree.leaves(alloc),
        answer => answer,
    }
}

fn ancestry(alloc: Global, tree: &Tree, rev: Rev) -> Result<Ancestry, TreeFault> {
    match tree.ancestry(alloc, rev) {
        Err(TreeFault::Memory) => tree.ancestry(alloc, rev),
        answer => answer,
    }
}

fn leaves_above(alloc: Global, tree: &Tree, revs: &[Rev]) -> Result<Revs, AllocError> {
    match tree.leaves_above(alloc, revs) {
        Err(AllocError) => tree.leaves_above(alloc, revs),
        answer => answer,
    }
}

fn missing(alloc: Global, tree: &Tree, revs: &[Rev]) -> Result<Revs, AllocError> {
    match tree.missing(alloc, revs) {
        Err(AllocError) => tree.missing(alloc, revs),
        answer => answer,
    }
}

/// Creates an ancestry from a generation and signatures, and retries if an allocation fails.
fn of_sigs(alloc: Global, start: u32, sigs: &[Sig]) -> Option<Ancestry> {
    match Ancestry::from_parts(alloc, start, sigs) {
        Ok(ancestry) => Some(ancestry),
        Err(_) => Ancestry::from_parts(alloc, start, sigs).ok(),
    }
}

/// Returns the ancestry 4-d, 3-x, which does not contain a parent of 3-x.
fn other(alloc: Global) -> Option<Ancestry> {
    match (Sig::parse(b"d"), Sig::parse(b"x")) {
        (Ok(d), Ok(x)) => of_sigs(alloc, 4, &[d, x]),
        _ => None,
    }
}

/// Returns the ancestry 12-l to 1-l. If a tree with another branch merges this ancestry of 12 revisions, the tree needs
/// an index.
fn long(alloc: Global) -> Option<Ancestry> {
    match Sig::parse(b"l") {
        Ok(sig) => of_sigs(alloc, 12, &[sig; 12]),
        Err(_) => None,
    }
}

/// Returns an ancestry of five revisions, whose signatures have 64, 33, 32, 32 and 17 bytes. A tree stores the first
/// two signatures in heap blocks.
fn mixed(alloc: Global) -> Option<Ancestry> {
    match (
        Sig::parse(b"0123456789abcdef0123456789abcdef0123456789abcdef0123456789abcdef"),
        Sig::parse(b"0123456789abcdef0123456789abcdef0"),
        Sig::parse(b"0123456789abcdef0123456789abcdeF"),
        Sig::parse(b"0123456789abcdef0123456789abcdef"),
        Sig::parse(b"0123456789abcdef0"),
    ) {
        (Ok(s), Ok(t), Ok(u), Ok(v), Ok(w)) => of_sigs(alloc, 15, &[s, t, u, v, w]),
        _ => None,
    }
}

/// Merges an optional ancestry. Returns whether the merge has the expected result, and no failed call of `merge`
/// changed the tree.
fn merges(alloc: Global, tree: &mut Tree, given: Option<&Ancestry>, wanted: Merged) -> bool {
    let Some(given) = given else {
        return false;
    };
    match merged(alloc, tree, given) {
        Ok((answer, changed)) => answer == wanted && !changed,
        Err(_) => false,
    }
}

/// Merges the ancestries of `three`, `other`, `long` and `mixed`, and then the ancestry of `three` again. Returns
/// whether each merge has the expected result.
fn grows(alloc: Global, tree: &mut Tree) -> bool {
    let three = revisions::three(alloc).ok();
    merges(alloc, tree, three.as_ref(), Merged::Changed)
        && merges(alloc, tree, other(alloc).as_ref(), Merged::Changed)
        && merges(alloc, tree, long(alloc).as_ref(), Merged::Changed)
        && merges(alloc, tree, mixed(alloc).as_ref(), Merged::Changed)
        && merges(alloc, tree, three.as_ref(), Merged::Same)
}

fn copied(alloc: Global, tree: &Tree) -> Result<Tree, AllocError> {
    match tree.copy(alloc) {
        Err(AllocError) => tree.copy(alloc),
        answer => answer,
    }
}

/// Whether `leaf` is the only leaf of the tree that is in `revs` or descends from a revision in `revs`.
fn is_above(alloc: Global, tree: &Tree, revs: &[Rev], leaf: Rev) -> bool {
    match leaves_above(alloc, tree, revs) {
        Ok(above) => above.as_slice() == [leaf].as_slice(),
        Err(AllocError) => false,
    }
}

/// Whether a tree has all given revisions.
fn has_all(alloc: Global, tree: &Tree, revs: &[Rev]) -> bool {
    match missing(alloc, tree, revs) {
        Ok(missing) => missing.as_slice().is_empty(),
        Err(AllocError) => false,
    }
}

/// Whether the tree has all revisions of the leaf's ancestry, and no other leaf descends from one of these revisions.
fn is_read(alloc: Global, tree: &Tree, leaf: Rev) -> bool {
    match ancestry(alloc, tree, leaf) {
        Ok(walk) => {
            is_above(alloc, tree, walk.revs(), leaf) && has_all(alloc, tree, walk.revs())
        }
        Err(_) => false,
    }
}

/// Whether `is_read` returns true for each leaf of the tree.
fn are_read(alloc: Global, tree: &Tree) -> bool {
    let Ok(leaves) = leaves(alloc, tree) else {
        return false;
    };
    let mut are_read = true;
    for leaf in leaves.as_slice() {
        are_read = are_read && is_read(alloc, tree, *leaf);
    }
    are_read
}

/// Builds a tree (`grows`), copies the tree, and checks the copy (`are_read`). Returns the numbers of leaves and
/// revisions of the copy, or `None` if building, copying or checking the tree fails.
fn ended(alloc: Global) -> Option<(usize, usize)> {
    let mut tree = Tree::new(alloc);
    if !grows(alloc, &mut tree) {
        return None;
    }
    match copied(alloc, &tree) {
        Ok(copy) if are_read(alloc, &copy) => Some((copy.leaf_count(), copy.rev_count())),
        _ => None,
    }
}

pub(crate) fn run(rt: &impl Print, alloc: Global) -> Result<()> {
    let Some((leaves, revs)) = ended(alloc) else {
        bail!("trees: another answer");
    };
    println!(rt; "trees as wanted: {leaves} leaves, {revs} revisions")?;
    Ok(())
}
