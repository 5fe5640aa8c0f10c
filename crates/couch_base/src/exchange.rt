//! Requests missing revisions, fetches documents for requests, and reads a document at a revision.
ghost use Rattle.std.specs.Prelude.{◌≡◌, ◌++◌, [], true, List, map, length, OnOk, IfOk};
ghost use Rattle.std.specs.List.{list_all};
ghost use Rattle.rev_tree.specs.Tree.{is_leaf, missing};
ghost use Rattle.couch_base.specs.Database.{IsDocumentTree, tree_of};
ghost use Rattle.doc_json.specs.Document.{Document};
ghost use Rattle.couch_base.specs.Readied.{AreMadeAll};
ghost use Rattle.couch_base.specs.Messages.{document_in, leaf_document, opened, want_first};

use crate::asked::{Asked, Wanted};
use crate::database::Database;
use crate::lookup_hint::LookupHint;
use crate::parcel::Parcel;
use crate::prepared_tree::PreparedTree;
use crate::row::Row;
use crate::window::Window;
use doc_json::{Body, Doc, DocId};
use rev_core::Rev;
use rev_tree::{Revs, Tree};
use std::alloc::{AllocError, Global};

impl Database {
    ghost use Rattle.couch_base.specs.Messages.{revs_diff, open_revs, document_at};

    /// Returns those leaves of `window` that this database lacks, in the order of the window's rows. The window comes
    /// from another database.
    ///
    /// A revision that this database knows only as an ancestor is not missing.
    pub fn revs_diff(&self, alloc: Global, window: &Window) -> Result<Asked, AllocError>
        ensures asked { IfOk result (λ a. a ≡ revs_diff self.now window.now) }
    {
        let mut docs = Vec::with_capacity(alloc, window.rows().len())?;
        let mut near = LookupHint::new();
        for row in window.rows() {
            self.want(alloc, row, &mut near, &mut docs)?;
        }
        Ok(Asked::new(window.lo(), window.hi(), docs))
    }

    /// Returns the documents for a request, and the requested revisions that this database does not have. For each
    /// requested document, the result has each leaf that is a requested revision or a descendant of one. Each leaf has
    /// its known ancestry and its content.
    ///
    /// The result has the documents in the order of the request, and the leaves of a document winner first.
    pub fn open_revs(&self, alloc: Global, asked: &Asked) -> Result<Parcel, AllocError>
        ensures parcel { IfOk result (λ p. p ≡ open_revs self.now asked.now) }
    {
        let again = asked.copy(alloc)?;
        self.open_asked(alloc, again)
    }

    /// Does the same as `open_revs`, but moves the request into the parcel instead of copying it.
    pub fn open_asked(&self, alloc: Global, asked: Asked) -> Result<Parcel, AllocError>
        ensures parcel { IfOk result (λ p. p ≡ open_revs self.now asked) }
    {
        self.law();
        let mut docs = Vec::with_capacity(alloc, asked.docs().len())?;
        let mut gone = Vec::new(alloc);
        let mut made = Vec::with_capacity(alloc, asked.docs().len())?;
        let mut near = LookupHint::new();
        for wanted in asked.docs() {
            self.fetch(alloc, wanted, &mut near, &mut docs, &mut gone, &mut made)?;
        }
        Ok(Parcel::with_prepared(asked, docs, gone, made))
    }

    /// Returns the number of documents that `open_revs` would return.
    pub fn count_asked(&self, alloc: Global, asked: &Asked) -> Result<u128, AllocError>
        ensures count { IfOk result (λ n. n ≡ length (open_revs self.now asked.now).docs) }
    {
        let mut count: u128 = 0;
        let mut near = LookupHint::new();
        for wanted in asked.docs() {
            let more = self.count_wanted(alloc, wanted, &mut near)?;
            count += more as u128;
        }
        Ok(count)
    }

    /// Counts the leaves of one requested document that `open_revs` would return.
    fn count_wanted(
        &self,
        alloc: Global,
        wanted: &Wanted,
        near: &mut LookupHint,
    ) -> Result<u64, AllocError>
        ensures count { IfOk result
            (λ n. n ≡ length (opened wanted.now.id (tree_of self.now.docs wanted.now.id) wanted.now.revs)) }
    {
        let Some(tree) = self.tree_by_hint(near, wanted.id()) else {
            return Ok(0);
        };
        let leaves = tree.leaves_above(alloc, wanted.revs())?;
        Ok(leaves.as_slice().len() as u64)
    }

    /// Returns the document at a revision, with its known ancestry and its content. The result is `None` if the
    /// document does not exist, its tree does not have the revision, or the revision has no content.
    pub fn document(&self, alloc: Global, id: &DocId, rev: Rev) -> Result<Option<Doc>, AllocError>
        ensures document { IfOk result (λ d. d ≡ document_at self.now id.now rev) }
    {
        match self.tree(id) {
            Some(tree) => document_in(alloc, id, tree, rev),
            None => Ok(None),
        }
    }

    /// Appends the missing leaves of a row to a request.
    fn want(
        &self,
        alloc: Global,
        row: &Row,
        near: &mut LookupHint,
        docs: &mut Vec<Wanted>,
    ) -> Result<(), AllocError>
        ensures ok { OnOk result (docs.new.items ≡ docs.old.items
            ++ want_first row.now.id (missing (tree_of self.now.docs row.now.id) row.now.leaves) []) }
    {
        let revs = self.missing(alloc, near, row.id(), row.leaves())?;
        if revs.is_empty() {
            return Ok(());
        }
        let id = row.id().copy(alloc)?;
        docs.push(Wanted::new(id, revs))?;
        Ok(())
    }

    /// Fetches the requested revisions of one document. `fetch` appends the fetched documents to `docs`, and to `made`
    /// the prepared trees of these documents. If the tree of the requested document lacks a requested revision, `fetch`
    /// appends this revision to `gone`.
    fn fetch(
        &self,
        alloc: Global,
        wanted: &Wanted,
        near: &mut LookupHint,
        docs: &mut Vec<Doc>,
        gone: &mut Vec<(DocId, Rev)>,
        made: &mut Vec<Option<PreparedTree>>,
    ) -> Result<(), AllocError>
        requires made { AreMadeAll docs.old.items made.old.items }
        ensures made { OnOk result (AreMadeAll docs.new.items made.new.items) }
        ensures docs { OnOk result (docs.new.items ≡ docs.old.items
            ++ opened wanted.now.id (tree_of self.now.docs wanted.now.id) wanted.now.revs) }
        ensures gone { OnOk result (gone.new.items ≡ gone.old.items
            ++ map (λ r. (wanted.now.id, r)) (missing (tree_of self.now.docs wanted.now.id) wanted.now.revs)) }
    {
        let id = wanted.id();
        let asked = wanted.revs();
        let Some(tree) = self.tree_by_hint(near, id) else {
            add_revs(alloc, id, asked, gone)?;
            return Ok(());
        };
        let leaves = tree.leaves_above(alloc, asked)?;
        add_documents(alloc, id, tree, &leaves, docs)?;
        add_prepared(alloc, id, tree, &leaves, made)?;
        let unknown = tree.missing(alloc, asked)?;
        add_revs(alloc, id, &unknown, gone)?;
        Ok(())
    }

    /// Returns the given revisions that the tree of a document does not have.
    fn missing(
        &self,
        alloc: Global,
        near: &mut LookupHint,
        id: &DocId,
        revs: &[Rev],
    ) -> Result<Revs, AllocError>
        ensures missing { IfOk result (λ r. r ≡ missing (tree_of self.now.docs id.now) revs.now) }
    {
        let Some(tree) = self.tree_by_hint(near, id) else {
            return Revs::from_slice(alloc, revs);
        };
        tree.missing(alloc, revs)
    }
}

/// Appends each of the given leaves to the list `docs`, as a document.
fn add_documents(
    alloc: Global,
    id: &DocId,
    tree: &Tree,
    leaves: &[Rev],
    docs: &mut Vec<Doc>,
) -> Result<(), AllocError>
    requires document { IsDocumentTree tree.now }
    requires leaves { list_all (is_leaf tree.now) leaves.now ≡ true }
    ensures ok { OnOk result
        (docs.new.items ≡ docs.old.items ++ map (leaf_document id.now tree.now) leaves.now) }
{
    for leaf in leaves {
        let doc = leaf_document(alloc, id, tree, *leaf)?;
        docs.push(doc)?;
    }
    Ok(())
}

/// Appends the prepared trees of leaves to a list, with `None` for a leaf for which a tree must be built. The document's
/// own tree is shared if it has no other leaf.
fn add_prepared(
    alloc: Global,
    id: &DocId,
    tree: &Tree,
    leaves: &[Rev],
    made: &mut Vec<Option<PreparedTree>>,
) -> Result<(), AllocError>
    requires document { IsDocumentTree tree.now }
    requires leaves { list_all (is_leaf tree.now) leaves.now ≡ true }
    ensures ok { OnOk result ((docs : List Document) → AreMadeAll docs made.old.items
        → AreMadeAll (docs ++ map (leaf_document id.now tree.now) leaves.now) made.new.items) }
{
    if leaves.len() == 1 {
        made.push(PreparedTree::shared(alloc, id, tree)?)?;
        return Ok(());
    }
    for leaf in leaves {
        made.push(None)?;
    }
    Ok(())
}

/// Returns a leaf as a document. A leaf always has a content.
fn leaf_document(alloc: Global, id: &DocId, tree: &Tree, leaf: Rev) -> Result<Doc, AllocError>
    requires document { IsDocumentTree tree.now }
    requires leaf { is_leaf tree.now leaf ≡ true }
    ensures document { IfOk result (λ d. d ≡ leaf_document id.now tree.now leaf) }
{
    let found = document_in(alloc, id, tree, leaf)?;
    Ok(found.unwrap())
}

/// Returns a revision as a document, if the revision has a content.
fn document_in(alloc: Global, id: &DocId, tree: &Tree, rev: Rev) -> Result<Option<Doc>, AllocError>
    requires document { IsDocumentTree tree.now }
    ensures document { IfOk result (λ d. d ≡ document_in id.now tree.now rev) }
{
    let found = match tree.rev_info(alloc, rev) {
        Ok(found) => found,
        Err(refused) => return Err(refused),
    };
    let Some(rev_info) = found else {
        return Ok(None);
    };
    let Some(content) = rev_info.content else {
        return Ok(None);
    };
    let text = content.share()?;
    let id = id.copy(alloc)?;
    let body = Body::from_text(text);
    Ok(Some(Doc::new(id, rev_info.ancestry, content.deleted(), body)))
}

/// Appends revisions of a document to a list.
fn add_revs(
    alloc: Global,
    id: &DocId,
    revs: &[Rev],
    gone: &mut Vec<(DocId, Rev)>,
) -> Result<(), AllocError>
    ensures ok { OnOk result (gone.new.items ≡ gone.old.items ++ map (λ r. (id.now, r)) revs.now) }
{
    for rev in revs {
        let again = id.copy(alloc)?;
        gone.push((again, *rev))?;
    }
    Ok(())
}
