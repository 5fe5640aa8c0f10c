//! Revision trees of new documents that are built before the documents are stored at the target.
ghost use Rattle.std.specs.Prelude.{◌≡◌, true, IfOk, IfSome};
ghost use Rattle.rev_core.specs.Rev.{RevId};
ghost use Rattle.rev_tree.specs.Tree.{is_leaf};
ghost use Rattle.couch_base.specs.Database.{IsDocumentTree};
ghost use Rattle.couch_base.specs.Messages.{leaf_document};
ghost use Rattle.couch_base.specs.Readied.{IsMadeOf};

use crate::edit::content_of;
use doc_json::{Doc, DocId};
use rev_tree::{Origin, Tree};
use std::alloc::{AllocError, Global};

/// The id of a document, and the tree that the document would have if it were new at the target. The tree's revisions
/// get their origin when the tree is stored (`Database::put_prepared`).
#[derive(Drop)]
pub struct PreparedTree {
    pub(crate) key: DocId,
    pub(crate) tree: Tree,
}

impl PreparedTree {
    /// Builds the tree of a new document.
    pub(crate) fn of(alloc: Global, doc: &Doc) -> Result<PreparedTree, AllocError>
        ensures { IfOk result (IsMadeOf doc.now) }
    {
        let ancestry = doc.ancestry();
        // The call of `revs` has no effect at run time. The proof of this function needs the contract of `revs`: an
        // ancestry has at least one revision.
        let _revs = ancestry.revs();
        let content = content_of(doc.deleted(), doc.body())?;
        let mut tree = Tree::new(alloc);
        tree.merge_change(ancestry, content, Origin::Local(0))?;
        let key = doc.id().copy(alloc)?;
        Ok(PreparedTree { key, tree })
    }

    /// Shares the tree of a document with one leaf, instead of building a tree for the leaf. Returns `None` if the tree
    /// has other leaves, or if it has contents of other revisions.
    pub(crate) fn shared(
        alloc: Global,
        id: &DocId,
        tree: &Tree,
    ) -> Result<Option<PreparedTree>, AllocError>
        requires { IsDocumentTree tree.now }
        ensures { IfOk result (λ o. IfSome o (λ m. (leaf : RevId) → is_leaf tree.now leaf ≡ true
            → IsMadeOf (leaf_document id.now tree.now leaf) m)) }
    {
        let Some(tree) = tree.share_leaf(Origin::Local(0))? else {
            return Ok(None);
        };
        let key = id.copy(alloc)?;
        Ok(Some(PreparedTree { key, tree }))
    }
}
