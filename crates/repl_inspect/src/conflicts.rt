//! Documents in conflict.
ghost use Rattle.std.specs.Prelude.{◌≡◌, not, filter, length, IfOk};
ghost use Rattle.rev_tree.specs.Tree.{is_deleted};
ghost use Rattle.repl_inspect.specs.Conflicts.{conflicting, live};

use rev_core::Rev;
use rev_tree::Tree;
use std::alloc::{AllocError, Global};

/// Returns the live leaves of a document, winner first. If the document has fewer than two live leaves, the returned
/// list is empty.
pub fn conflicting(alloc: Global, tree: &Tree) -> Result<Vec<Rev>, AllocError>
    ensures { IfOk result (λ v. v.items ≡ conflicting tree.now) }
{
    let found = live(alloc, tree)?;
    if found.len() < 2 {
        return Ok(Vec::new(alloc));
    }
    Ok(found)
}

/// Returns the live leaves (leaves that are not deleted) of a tree, winner first.
pub(crate) fn live(alloc: Global, tree: &Tree) -> Result<Vec<Rev>, AllocError>
    ensures { IfOk result (λ v. v.items ≡ live tree.now) }
{
    let leaves = tree.leaves(alloc)?;
    live_of(alloc, tree, leaves.as_slice())
}

/// Returns the given revisions, but without the revisions that delete the document.
fn live_of(alloc: Global, tree: &Tree, revs: &[Rev]) -> Result<Vec<Rev>, AllocError>
    ensures { IfOk result (λ v. v.items ≡ filter (λ r. not (is_deleted tree.now r)) revs.now) }
{
    let mut found = Vec::new(alloc);
    for rev in revs {
        if !tree.is_deleted(*rev) {
            found.push(*rev)?;
        }
    }
    Ok(found)
}
