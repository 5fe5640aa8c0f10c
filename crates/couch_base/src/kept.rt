//! The form in which a database stores a document.

use rev_tree::Tree;

/// The sequence of a document's latest change, and its tree.
#[derive(Drop)]
pub(crate) struct Kept {
    pub(crate) seq: u64,
    pub(crate) tree: Tree,
}
