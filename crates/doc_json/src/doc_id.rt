//! Ids of documents.
ghost use Rattle.std.specs.Prelude.{◌≡◌, ◌∷◌, [], Ok, Err, IfErr, OnOk, nat_eq, refl};
ghost use Rattle.std.specs.Ordering.{nat_cmp, as_partial_cmp};
ghost use Rattle.std.specs.Cmp;
ghost use Rattle.std.specs.Cmp.Rules.{hashing};
ghost use Rattle.std.specs.Cmp.Lexicographic.{pointwise, slice_cmp, nat_list_eq_equiv, nat_list_cmp_total, texts_po, texts_ties};
ghost use Rattle.std.proofs.Common.{rules};
ghost use Rattle.doc_json.specs.DocId.{doc_id_read, is_special, is_design};

use crate::fault::DocFault;
use crate::near_text::NearText;
use std::alloc::{AllocError, Global};
use std::cmp::Ordering;
use std::hash::{Hash, Hasher};
use std::marker::Model;

/// The string of a document id, which is stored inline if it has at most 32 bytes.
#[derive(Debug, Drop)]
enum IdText {
    Inline(NearText),
    Allocated(String),
}

impl IdText {
    ghost use Rattle.std.specs.Prelude.{◌≡◌, IfOk};
    ghost use Rattle.doc_json.specs.IdText.{text_of};

    /// Stores a string.
    fn keep(alloc: Global, text: &str) -> Result<IdText, AllocError>
        ensures kept { IfOk result (λ t. text_of t ≡ text.now) }
    {
        if let Some(near) = NearText::keep(text) {
            return Ok(IdText::Inline(near));
        }
        Ok(IdText::Allocated(String::from_str(alloc, text)?))
    }

    /// Copies the string.
    fn copy(&self, alloc: Global) -> Result<IdText, AllocError>
        ensures copied { IfOk result (λ t. text_of t ≡ text_of self.now) }
    {
        match self {
            IdText::Inline(near) => Ok(IdText::Inline(near.copy())),
            IdText::Allocated(far) => Ok(IdText::Allocated(String::from_str(alloc, far.as_str())?)),
        }
    }

    /// Returns the string.
    fn as_str(&self) -> &str
        ensures { result.now ≡ text_of self.now }
    {
        match self {
            IdText::Inline(near) => near.as_str(),
            IdText::Allocated(far) => far.as_str(),
        }
    }
}

/// The id of a document: either a nonempty string that does not begin with `_`, or `_design/` followed by at least one
/// more character.
///
/// Ids are ordered by their bytes.
#[derive(Debug)]
pub struct DocId {
    text: IdText,
}

// `Drop` is implemented by hand because the derived code would be proved again in each crate that owns a `DocId`
// (docs/DECISIONS.md, "Letting values go").
impl Drop for DocId {
    fn drop(self) {
        let DocId { text: _ } = self;
    }
}

impl Model for DocId {
    ghost use Rattle.std.specs.Prelude.{◌≡◌, List, ℕ, Ok};

    ghost Value = { List ℕ };

    ghost use Rattle.doc_json.specs.DocId.{doc_id_read};
    ghost use Rattle.doc_json.specs.IdText.{text_of};

    ghost view = { λ a. text_of a.text };

    ghost invariant = { λ a. doc_id_read (text_of a.text) ≡ Ok (text_of a.text) };
}

impl DocId {
    ghost use Rattle.std.specs.Prelude.{◌≡◌, Ok, IfOk};
    ghost use Rattle.doc_json.specs.Answers.{GivesUnlessMemory};
    ghost use Rattle.doc_json.specs.DocId.{doc_id_read};

    /// Parses a document id.
    ///
    /// # Errors
    ///
    /// - `NoId`: the string is empty.
    /// - `ReservedId`: the string begins with `_` and is not the id of a design document.
    /// - `Memory`: an allocation failed. The call returns `Memory` only if no other error applies.
    pub fn parse(alloc: Global, text: &str) -> Result<DocId, DocFault>
        ensures { GivesUnlessMemory result (doc_id_read text.now) }
    {
        check_id(text)?;
        Ok(DocId::of_checked(alloc, text)?)
    }

    /// Wraps a string that the caller knows to be a document id.
    pub(crate) fn of_checked(alloc: Global, text: &str) -> Result<DocId, AllocError>
        requires { doc_id_read text.now ≡ Ok text.now }
        ensures id { IfOk result (λ a. a ≡ text.now) }
    {
        let text = IdText::keep(alloc, text)?;
        Ok(DocId { text })
    }

    /// Returns the string.
    pub fn text(&self) -> &str
        ensures text { result.now ≡ self.now }
        ensures id { doc_id_read self.now ≡ Ok self.now }
    {
        self.text.as_str()
    }

    /// Copies the id.
    pub fn copy(&self, alloc: Global) -> Result<DocId, AllocError>
        ensures copied { IfOk result (λ a. a ≡ self.now) }
    {
        let text = self.text.copy(alloc)?;
        Ok(DocId { text })
    }
}

impl PartialEq for DocId {
    ghost eq = { pointwise nat_eq };

    ghost laws = { Cmp.partial_equiv_from_equiv nat_list_eq_equiv };

    fn eq(&self, other: &DocId) -> bool {
        self.text() == other.text()
    }
}

impl Eq for DocId {
    ghost laws = { nat_list_eq_equiv };
}

impl PartialOrd for DocId {
    ghost partial_cmp = { as_partial_cmp (slice_cmp nat_cmp) };

    ghost laws = { texts_po };

    fn partial_cmp(&self, other: &DocId) -> Option<Ordering> {
        Some(self.cmp(other))
    }
}

impl Ord for DocId {
    ghost cmp = { slice_cmp nat_cmp };

    ghost total = { nat_list_cmp_total };

    ghost matches_partial_cmp = { λ _ _. refl };

    ghost matches_eq = { texts_ties };

    fn cmp(&self, other: &DocId) -> Ordering {
        self.text().cmp(other.text())
    }
}

impl Hash for DocId {
    ghost hash_input = { λ id. id ∷ [] };

    ghost respects_eq = { Prim.search (hashing, rules) };

    fn hash<H: Hasher>(&self, state: &mut H) {
        state.write(self.text().as_bytes());
    }
}

/// Checks whether a string is a document id. Returns `NoId` if the string is empty, and `ReservedId` if the string
/// begins with `_` and is not a design document's id.
pub(crate) fn check_id(text: &str) -> Result<(), DocFault>
    ensures ok { OnOk result (doc_id_read text.now ≡ Ok text.now) }
    ensures err { IfErr result (λ e. doc_id_read text.now ≡ Err e) }
{
    if text.is_empty() {
        return Err(DocFault::NoId);
    }
    if is_special(text) && !is_design(text) {
        return Err(DocFault::ReservedId);
    }
    Ok(())
}

/// Whether a string begins with `_`.
pub(crate) fn is_special(text: &str) -> bool
    ensures { result ≡ is_special text.now }
{
    match text.as_bytes().first() {
        Some(first) => *first == b'_',
        None => false,
    }
}

/// Whether a string is `_design/` and at least one more character.
fn is_design(text: &str) -> bool
    ensures { result ≡ is_design text.now }
{
    text.as_bytes().starts_with(b"_design/") && text.len() > 8
}
