//! Returns, for each leaf of a stored document, a document that has the leaf's content and ancestry.
ghost use Rattle.std.specs.Prelude.{◌≡◌, true, map, IfOk};
ghost use Rattle.std.specs.List.{list_all};
ghost use Rattle.rev_tree.specs.Tree.{is_leaf};
ghost use Rattle.couch_base.specs.Database.{tree_of};
ghost use Rattle.couch_base.specs.Messages.{leaf_document};
ghost use Rattle.repl_inspect.specs.Documents.{documents_at};
ghost use Rattle.repl_inspect.specs.LoadBack.{LoadBack};

use crate::trees::tree_or;
use couch_base::Database;
use doc_json::{Doc, DocId};
use rev_core::Rev;
use rev_tree::Tree;
use std::alloc::{AllocError, Global};

/// Returns, for each leaf of a stored document, a document with the leaf's known ancestry and content, winner first.
/// The list is empty if the database does not have the document.
///
/// An empty peer with enough free sequences accepts the leaves of all selected documents if the leaves are loaded in
/// feed order. After an empty peer has accepted the leaves of all selected documents, each selected document is the
/// same at the peer and in `database`.
pub fn documents_of(alloc: Global, database: &Database, id: &DocId) -> Result<Vec<Doc>, AllocError>
    ensures documents { IfOk result (λ v. v.items ≡ documents_at database.now id.now) }
    ensures documents_load_back { LoadBack database.now }
{
    database.law();
    let none = Tree::new(alloc);
    let leaves = tree_or(database, id, &none).leaves(alloc)?;
    documents_at(alloc, database, id, leaves.as_slice())
}

/// Returns, for each of the given leaves of a stored document, a document with the leaf's ancestry and content.
fn documents_at(
    alloc: Global,
    database: &Database,
    id: &DocId,
    leaves: &[Rev],
) -> Result<Vec<Doc>, AllocError>
    requires { list_all (is_leaf (tree_of database.now.docs id.now)) leaves.now ≡ true }
    ensures { IfOk result (λ v. v.items ≡ map (leaf_document id.now (tree_of database.now.docs id.now)) leaves.now) }
{
    let mut found = Vec::with_capacity(alloc, leaves.len())?;
    for leaf in leaves {
        let doc = leaf_document(alloc, database, id, *leaf)?;
        found.push(doc)?;
    }
    Ok(found)
}

/// Returns a document with the ancestry and the content of a leaf. A leaf always has a content.
pub fn leaf_document(
    alloc: Global,
    database: &Database,
    id: &DocId,
    leaf: Rev,
) -> Result<Doc, AllocError>
    requires { is_leaf (tree_of database.now.docs id.now) leaf ≡ true }
    ensures { IfOk result (λ d. d ≡ leaf_document id.now (tree_of database.now.docs id.now) leaf) }
{
    database.law();
    let found = database.document(alloc, id, leaf)?;
    Ok(found.unwrap())
}
