//! Looks up the tree of a document, with an empty tree if the document does not exist.
ghost use Rattle.std.specs.Prelude.{◌≡◌};
ghost use Rattle.couch_base.specs.Database.{tree_of};
ghost use Rattle.rev_tree.specs.Tree.{no_revisions};

use couch_base::Database;
use doc_json::DocId;
use rev_tree::Tree;

/// Returns the tree of a document, or an empty tree if the document does not exist.
pub(crate) fn tree_or<'a>(database: &'a Database, id: &DocId, none: &'a Tree) -> &'a Tree
    requires { none.now ≡ no_revisions }
    ensures { result.now ≡ tree_of database.now.docs id.now }
{
    match database.tree(id) {
        Some(tree) => tree,
        None => none,
    }
}
