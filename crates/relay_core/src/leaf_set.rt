//! Sets of document ids, and sets of leaves together with their document ids.
ghost use Rattle.std.specs.Prelude.{◌≡◌, ◌||◌, IfOk, OnOk};
ghost use Rattle.relay_core.specs.Messages.{Text};
ghost use Rattle.relay_core.specs.Views.{doc_view, docs_view};
ghost use Rattle.relay_core.specs.Leaves.{names, are_distinct};
ghost use Rattle.relay_core.specs.LeafSets.{has_leaf, is_leaf_of};

use crate::messages::DocLeaves;
use indexmap::IndexSet;
use std::alloc::{AllocError, Global};

/// A set of leaves. Each leaf is a pair of its document's id and the leaf revision.
pub(crate) type LeafSet<'a> = IndexSet<(&'a str, &'a str)>;

/// Whether the set has the leaf `leaf` of the document `id`.
pub(crate) fn has_leaf(leaves: &LeafSet<'_>, id: &str, leaf: &str) -> bool
    ensures { result ≡ has_leaf leaves.now.keys id.now leaf.now }
{
    leaves.contains(&(id, leaf))
}

fn add_leaves<'a>(leaves: &mut LeafSet<'a>, doc: &'a DocLeaves) -> Result<(), AllocError>
    ensures { OnOk result ((id leaf : Text)
        → has_leaf leaves.new.keys id leaf ≡ (has_leaf leaves.old.keys id leaf || is_leaf_of (doc_view doc.now) id leaf)) }
{
    for rev in &doc.revs {
        leaves.insert((doc.id.as_str(), rev.as_str()))?;
    }
    Ok(())
}

/// Returns the set of the leaves of the given documents.
pub(crate) fn leaf_set<'a>(alloc: Global, docs: &'a [DocLeaves]) -> Result<LeafSet<'a>, AllocError>
    ensures { IfOk result (λ s. (id leaf : Text) → has_leaf s.keys id leaf ≡ names (docs_view docs.now) id leaf) }
{
    let mut leaves = IndexSet::new(alloc);
    for doc in docs {
        add_leaves(&mut leaves, doc)?;
    }
    Ok(leaves)
}

/// Whether the given documents have distinct ids.
pub(crate) fn are_distinct(alloc: Global, docs: &[DocLeaves]) -> Result<bool, AllocError>
    ensures { IfOk result (λ b. b ≡ are_distinct (docs_view docs.now)) }
{
    let mut known = IndexSet::new(alloc);
    for doc in docs {
        if !known.insert(doc.id.as_str())? {
            return Ok(false);
        }
    }
    Ok(true)
}
