//! Computes the parent and the ancestry of a local edit.
ghost use Rattle.std.specs.Prelude.{◌≡◌, ◌^◌, ◌∷◌, Some, not, nat_lt, IfOk};
ghost use Rattle.std.specs.Option.{option_to_list};
ghost use Rattle.rev_core.specs.NewRev.{next_generation};
ghost use Rattle.doc_json.specs.Body.{IsBody};
ghost use Rattle.couch_base.specs.Answers.{GivesUnlessMemory};
ghost use Rattle.couch_base.specs.Edit.{parent_answer, edit_id, edit_revs};
ghost use Rattle.couch_base.specs.Put.{content_of};

use crate::fault::BaseFault;
use doc_json::Body;
use rev_core::{Ancestry, Rev, new_rev};
use rev_tree::{Content, Tree};
use std::alloc::{AllocError, Global};

/// Returns the parent of an edit. If the edit names a leaf, the parent is this leaf. If the edit names no parent and
/// all leaves are deleted, the parent is the winner. Otherwise returns `Conflict`.
pub(crate) fn parent_in(tree: &Tree, parent: Option<Rev>) -> Result<Option<Rev>, BaseFault>
    ensures { result ≡ parent_answer (Some tree.now) parent }
{
    match parent {
        Some(parent) => {
            if tree.is_leaf(parent) {
                Ok(Some(parent))
            } else {
                Err(BaseFault::Conflict)
            }
        }
        None => deleted_winner(tree),
    }
}

/// Returns the winner if all leaves are deleted, else `Conflict`.
fn deleted_winner(tree: &Tree) -> Result<Option<Rev>, BaseFault>
    ensures { result ≡ parent_answer (Some tree.now) None }
{
    // Live leaves come before deleted leaves, so the winner is a deleted leaf only if all leaves are deleted.
    let Some(winner) = tree.winner() else {
        return Ok(None);
    };
    if tree.is_deleted(winner) {
        Ok(Some(winner))
    } else {
        Err(BaseFault::Conflict)
    }
}

/// Whether the revision has the greatest generation, so that it cannot have a child.
pub(crate) fn next_is_full(before: Option<Rev>) -> bool
    ensures { result ≡ not (nat_lt (next_generation before) (2 ^ 32)) }
{
    match before {
        Some(before) => before.generation() == u32::MAX,
        None => false,
    }
}

/// Creates the ancestry of an edit: the new revision and its parent. Returns `GenerationFull` if the parent has the
/// greatest generation.
pub(crate) fn edit_ancestry(
    alloc: Global,
    before: Option<Rev>,
    deleted: bool,
    body: &Body,
) -> Result<Ancestry, BaseFault>
    ensures { GivesUnlessMemory result (edit_revs before deleted body.now) }
{
    match before {
        None => {
            let rev = edit_rev(alloc, None, deleted, body)?;
            Ok(ancestry_of(alloc, rev, None)?)
        }
        Some(parent) => {
            let rev = edit_rev(alloc, Some(parent), deleted, body)?;
            Ok(ancestry_of(alloc, rev, Some(parent))?)
        }
    }
}

/// Computes the new revision of an edit.
fn edit_rev(
    alloc: Global,
    parent: Option<Rev>,
    deleted: bool,
    body: &Body,
) -> Result<Rev, BaseFault>
    ensures { GivesUnlessMemory result (edit_id parent deleted body.now) }
{
    Ok(new_rev(alloc, parent, deleted, body.text())?)
}

/// Creates the ancestry that consists of a revision and, if the revision has a parent, the parent.
fn ancestry_of(alloc: Global, rev: Rev, parent: Option<Rev>) -> Result<Ancestry, AllocError>
    requires { rev.generation ≡ next_generation parent }
    ensures ancestry { IfOk result (λ a. a ≡ rev ∷ option_to_list parent) }
{
    let mut revs = Vec::with_capacity(alloc, 2)?;
    // The calls of `generation` have no effect at run time. The proof of this function needs the contract of
    // `generation`: `rev` and `parent` are valid revisions.
    let _generation = rev.generation();
    revs.push(rev)?;
    let Some(parent) = parent else {
        return Ok(Ancestry::from_revs(revs));
    };
    let _generation = parent.generation();
    revs.push(parent)?;
    Ok(Ancestry::from_revs(revs))
}

/// Creates a content from a deleted flag and a body. The content shares the body instead of copying it.
pub(crate) fn content_of(deleted: bool, body: &Body) -> Result<Content, AllocError>
    ensures content { IfOk result (λ c. c ≡ content_of deleted body.now) }
    ensures body { IfOk result (λ c. IsBody c.body) }
{
    let text = body.share()?;
    Ok(Content::new(deleted, text))
}
