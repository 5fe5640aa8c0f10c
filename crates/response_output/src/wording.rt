//! Formats the items that the parser of responses found.
ghost use Rattle.std.specs.Prelude.{◌≡◌, ◌≤◌, ◌++◌, ◌∷◌, [], length, IfOk, OnOk};
ghost use Rattle.response_parser.specs.State.{more};
ghost use Rattle.response_output.specs.Stored.{made_of, words_of_wording};
ghost use Rattle.response_output.specs.Forms.{before_rev as before_rev_of};
ghost use Rattle.response_output.specs.Words.{before, behind, is_full, document_text, part_text, rest_text, with_document, id_kept, rev_text, with_rev, first_rev_text, with_first_rev, over_text, over, text_for, counted_up, words_then, last_text, words_of, loads_of, asked_of, diffs_of, docs_of, bodies_of};

use crate::forms::{Form, before_rev, closing, empty, ends, has_lists, opening, separator};
use doc_envelope::id_of;
use response_parser::Found;
use std::alloc::{AllocError, Global};

/// A formatter of documents, ids and revisions, and its state.
#[derive(Drop)]
pub struct Wording {
    form: Form,
    /// The text that the formatter writes before each item of the output.
    begins: Vec<u8>,
    /// The last id.
    id: Vec<u8>,
    /// Whether the formatter has written a revision of the last document id.
    listed: bool,
    /// The number of items in the open request body.
    count: u64,
    /// The maximum number of items per request body, or 0 for no limit.
    size: u64,
    /// Whether anything was written.
    told: bool,
    /// The text of the item that the formatter formatted last.
    text: Vec<u8>,
}

impl Wording {
    /// Creates a formatter of `load` lines, one for each document. The formatter writes the name of the database
    /// unchanged.
    pub fn loads(alloc: Global, db: &str) -> Result<Wording, AllocError>
        ensures { IfOk result (λ wording. words_of_wording wording ≡ loads_of db.now) }
    {
        let begins = concatenated(
            alloc,
            b"{\"do\":\"load\",\"db\":\"",
            db.as_bytes(),
            b"\",\"doc\":",
        )?;
        Ok(made(alloc, Form::Loads, begins, 0))
    }

    /// Creates a formatter of `_bulk_get` bodies. Each body requests at most `size` revisions. If `size` is 0, one body
    /// requests all revisions.
    pub fn asked(alloc: Global, size: u64) -> Result<Wording, AllocError>
        ensures { IfOk result (λ wording. words_of_wording wording ≡ asked_of size) }
    {
        let begins = Vec::from_slice(alloc, b"{\"id\":")?;
        Ok(made(alloc, Form::Asked, begins, size))
    }

    /// Creates a formatter of `_revs_diff` bodies. Each body has at most `size` documents. If `size` is 0, one body has
    /// all documents.
    pub fn diffs(alloc: Global, size: u64) -> Wording
        ensures { words_of_wording result ≡ diffs_of size }
    {
        made(alloc, Form::Diffs, Vec::new(alloc), size)
    }

    /// Creates a formatter of `doc` lines, one for each revision. The formatter writes the name of the database
    /// unchanged.
    pub fn docs(alloc: Global, db: &str) -> Result<Wording, AllocError>
        ensures { IfOk result (λ wording. words_of_wording wording ≡ docs_of db.now) }
    {
        let begins = concatenated(
            alloc,
            b"{\"do\":\"doc\",\"db\":\"",
            db.as_bytes(),
            b"\",\"id\":",
        )?;
        Ok(made(alloc, Form::Docs, begins, 0))
    }

    /// Creates a formatter of `_bulk_docs` bodies. Each body has at most `size` documents. If `size` is 0, one body has
    /// all documents.
    pub fn bodies(alloc: Global, size: u64) -> Wording
        ensures { words_of_wording result ≡ bodies_of size }
    {
        made(alloc, Form::Bodies, Vec::new(alloc), size)
    }

    /// Formats an item.
    ///
    /// After a failed allocation, the caller must not use the formatter again.
    pub fn put(&mut self, found: Found, text: &[u8]) -> Result<(), AllocError>
        ensures text { OnOk result (made_of self.new ≡ text_for (words_of_wording self.old) found text.now) }
        ensures words { OnOk result
            (words_of_wording self.new ≡ words_then (words_of_wording self.old) found text.now) }
    {
        self.text.clear();
        match found {
            Found::Nothing => Ok(()),
            Found::Document => self.put_document(text),
            Found::Id => self.keep_id(text),
            Found::Rev => self.put_rev(text),
        }
    }

    /// Returns the text of the item that the formatter formatted last.
    pub fn text(&self) -> &[u8]
        ensures { result.now ≡ made_of self.now }
    {
        self.text.as_slice()
    }

    /// Returns the id of the last document or revision, with its quotation marks.
    pub fn id(&self) -> &[u8]
        ensures { result.now ≡ (words_of_wording self.now).id }
    {
        self.id.as_slice()
    }

    /// Returns the text that closes the output at the end of the input.
    pub fn last(&self) -> &'static [u8]
        ensures { result.now ≡ last_text (words_of_wording self.now) }
    {
        if self.count > 0 {
            closing(self.form)
        } else if self.told {
            b""
        } else {
            empty(self.form)
        }
    }

    /// Formats a document that is given as JSON text.
    fn put_document(&mut self, text: &[u8]) -> Result<(), AllocError>
        requires { made_of self.old ≡ [] }
        ensures text { OnOk result (made_of self.new ≡ document_text (words_of_wording self.old) text.now) }
        ensures words { OnOk result (words_of_wording self.new ≡ with_document (words_of_wording self.old) text.now) }
    {
        self.keep_id(id_of(text))?;
        self.put_before()?;
        self.text.extend_from_slice(text)?;
        self.put_behind()?;
        self.count_up();
        Ok(())
    }

    /// Formats a part of a document: `front[told..]`, followed by `bytes`. The caller has already written the first
    /// `told` bytes of `front`. If `told` is 0, the call first adds the text that precedes each item in the output
    /// format.
    pub fn put_part(&mut self, front: &[u8], told: usize, bytes: &[u8]) -> Result<(), AllocError>
        requires { told ≤ length front.now }
        ensures text { OnOk result (made_of self.new ≡ part_text (words_of_wording self.old) front.now told bytes.now) }
        ensures words { words_of_wording self.new ≡ words_of_wording self.old }
    {
        self.text.clear();
        if told == 0 {
            self.put_before()?;
        }
        self.text.extend_from_slice(&front[told..])?;
        self.text.extend_from_slice(bytes)
    }

    /// Formats the rest of a document. The caller has already written the document's first `told` bytes.
    pub fn put_rest(&mut self, document: &[u8], told: usize) -> Result<(), AllocError>
        requires { told ≤ length document.now }
        ensures text { OnOk result (made_of self.new ≡ rest_text (words_of_wording self.old) document.now told) }
        ensures words { OnOk result
            (words_of_wording self.new ≡ with_document (words_of_wording self.old) document.now) }
    {
        self.text.clear();
        self.keep_id(id_of(document))?;
        self.text.extend_from_slice(&document[told..])?;
        self.put_behind()?;
        self.count_up();
        Ok(())
    }

    /// Stores an id.
    fn keep_id(&mut self, text: &[u8]) -> Result<(), AllocError>
        ensures same { made_of self.new ≡ made_of self.old }
        ensures words { OnOk result (words_of_wording self.new ≡ id_kept (words_of_wording self.old) text.now) }
    {
        self.id.clear();
        self.listed = false;
        self.id.extend_from_slice(text)
    }

    /// Formats a revision of the document id that was read last.
    fn put_rev(&mut self, rev: &[u8]) -> Result<(), AllocError>
        requires { made_of self.old ≡ [] }
        ensures text { OnOk result (made_of self.new ≡ rev_text (words_of_wording self.old) rev.now) }
        ensures words { OnOk result (words_of_wording self.new ≡ with_rev (words_of_wording self.old)) }
    {
        if has_lists(self.form) && self.listed {
            return self.put_further(rev);
        }
        self.put_first(rev)
    }

    /// Formats the first requested revision of a document.
    fn put_first(&mut self, rev: &[u8]) -> Result<(), AllocError>
        requires { made_of self.old ≡ [] }
        ensures text { OnOk result (made_of self.new ≡ first_rev_text (words_of_wording self.old) rev.now) }
        ensures words { OnOk result (words_of_wording self.new ≡ with_first_rev (words_of_wording self.old)) }
    {
        self.put_over()?;
        self.put_before()?;
        self.put_named(rev)?;
        self.put_behind()?;
        self.count_up();
        self.listed = true;
        Ok(())
    }

    /// Formats a revision together with its document id.
    fn put_named(&mut self, rev: &[u8]) -> Result<(), AllocError>
        ensures text { OnOk result (made_of self.new ≡ made_of self.old
            ++ ((words_of_wording self.old).id ++ (before_rev_of (words_of_wording self.old).form ++ rev.now))) }
        ensures words { words_of_wording self.new ≡ words_of_wording self.old }
    {
        self.text.extend_from_slice(self.id.as_slice())?;
        self.text.extend_from_slice(before_rev(self.form))?;
        self.text.extend_from_slice(rev)
    }

    /// Formats the next revision in a document's list of revisions.
    fn put_further(&mut self, rev: &[u8]) -> Result<(), AllocError>
        requires { made_of self.old ≡ [] }
        ensures text { OnOk result (made_of self.new ≡ 44 ∷ rev.now) }
        ensures words { words_of_wording self.new ≡ words_of_wording self.old }
    {
        self.text.extend_from_slice(b",")?;
        self.text.extend_from_slice(rev)
    }

    /// Closes a request body that has the maximum number of documents.
    fn put_over(&mut self) -> Result<(), AllocError>
        requires { made_of self.old ≡ [] }
        ensures text { OnOk result (made_of self.new ≡ over_text (words_of_wording self.old)) }
        ensures words { OnOk result (words_of_wording self.new ≡ over (words_of_wording self.old)) }
    {
        if has_lists(self.form) && self.count > 0 && self.count == self.size {
            self.text.extend_from_slice(closing(self.form))?;
            self.count = 0;
        }
        Ok(())
    }

    /// Appends the text that the output format has before an item.
    fn put_before(&mut self) -> Result<(), AllocError>
        ensures text { OnOk result (made_of self.new ≡ made_of self.old ++ before (words_of_wording self.old)) }
        ensures words { words_of_wording self.new ≡ words_of_wording self.old }
    {
        let opens = if self.count == 0 {
            opening(self.form)
        } else {
            separator(self.form)
        };
        self.text.extend_from_slice(opens)?;
        self.text.extend_from_slice(self.begins.as_slice())
    }

    /// Appends the text that the output format has after an item.
    fn put_behind(&mut self) -> Result<(), AllocError>
        ensures text { OnOk result (made_of self.new ≡ made_of self.old ++ behind (words_of_wording self.old)) }
        ensures words { words_of_wording self.new ≡ words_of_wording self.old }
    {
        self.text.extend_from_slice(ends(self.form))?;
        if self.is_full() {
            self.text.extend_from_slice(closing(self.form))?;
        }
        Ok(())
    }

    /// Whether the request body is full after one more item, so that the formatter must close the body.
    fn is_full(&self) -> bool
        ensures { result ≡ is_full (words_of_wording self.now) }
    {
        !has_lists(self.form) && more(self.count) == self.size
    }

    /// Counts an item.
    fn count_up(&mut self)
        ensures words { words_of_wording self.new ≡ counted_up (words_of_wording self.old) }
        ensures same { made_of self.new ≡ made_of self.old }
    {
        self.count = if self.is_full() { 0 } else { more(self.count) };
        self.told = true;
    }
}

/// Creates a formatter that has formatted no item.
fn made(alloc: Global, form: Form, begins: Vec<u8>, size: u64) -> Wording
    ensures { words_of_wording result ≡ words_of form begins.items size }
{
    Wording {
        form,
        begins,
        id: Vec::new(alloc),
        listed: false,
        count: 0,
        size,
        told: false,
        text: Vec::new(alloc),
    }
}

/// Returns `count + 1`, or `u64::MAX` if the count is already `u64::MAX`.
fn more(count: u64) -> u64
    ensures { result ≡ more count }
{
    if count < u64::MAX { count + 1 } else { count }
}

/// Concatenates three texts.
fn concatenated(alloc: Global, one: &[u8], two: &[u8], last: &[u8]) -> Result<Vec<u8>, AllocError>
    ensures { IfOk result (λ joined. joined.items ≡ one.now ++ (two.now ++ last.now)) }
{
    let mut joined = Vec::from_slice(alloc, one)?;
    joined.extend_from_slice(two)?;
    joined.extend_from_slice(last)?;
    Ok(joined)
}
