//! Selections of documents.
ghost use Rattle.std.specs.Prelude.{◌≡◌, ◌<◌, ◌∷◌, [], nat_eq, length, refl};
ghost use Rattle.std.specs.List.{AllByRecursion};
ghost use Rattle.std.specs.List.Sorted.{IsStrictlySortedBy};
ghost use Rattle.std.specs.Option.{option_copied};
ghost use Rattle.std.specs.Ordering.{nat_cmp, as_partial_cmp};
ghost use Rattle.std.specs.Cmp;
ghost use Rattle.std.specs.Cmp.Lexicographic.{pointwise, slice_cmp, lists_equiv, lists_total, lists_ties, nat_list_eq_equiv, nat_list_cmp_total, texts_ties};
ghost use Rattle.std.specs.Hash as fed;
ghost use Rattle.std.specs.Hash.{items_Alike};
ghost use Rattle.doc_json.specs.Chosen.{is_chosen, ids_of, IsText};
ghost use Rattle.doc_json.specs.ChosenLaws.{id_alike, choices_po};

use crate::doc_id::DocId;
use crate::fault::DocFault;
use crate::marks::{is_marked, mark};
use std::alloc::AllocError;
use std::cmp::Ordering;
use std::fmt::{Debug, Error, Formatter, Write};
use std::hash::{Hash, Hasher};
use std::marker::Model;
use std::sync::ArcSlice;

/// The maximum number of ids in a selection.
const MOST: usize = 1000;

/// The ids of the selected documents: 1 to 1,000, in byte order, without duplicates.
///
/// All copies of a selection share its ids.
pub struct Chosen {
    ids: ArcSlice<DocId>,
    /// A table of hashes of the selected ids, in which one lookup rejects most ids that are not selected.
    marks: ArcSlice<bool>,
}

// `Drop` is implemented by hand because the derived code would be proved again in each crate that owns a `Chosen`
// (docs/DECISIONS.md, "Letting values go").
impl Drop for Chosen {
    fn drop(self) {
        let Chosen { ids: _, marks: _ } = self;
    }
}

impl Model for Chosen {
    ghost use Rattle.std.specs.Prelude.{List, ℕ};

    ghost Value = { List (List ℕ) };

    ghost use Rattle.std.specs.Arc.{arc_slice_items};
    ghost use Rattle.doc_json.specs.Chosen.{IsChoice};

    ghost view = { λ c. arc_slice_items c.ids };

    ghost use Rattle.doc_json.specs.Marks.{AreMarks};

    ghost invariant = { λ c. IsChoice (arc_slice_items c.ids)
        × AreMarks (arc_slice_items c.marks) (arc_slice_items c.ids) };
}

impl Chosen {
    ghost use Rattle.std.specs.Prelude.{◌≡◌, Some, IfOk};
    ghost use Rattle.doc_json.specs.Answers.{GivesUnlessMemory};
    ghost use Rattle.doc_json.specs.Chosen.{chosen_answer, is_chosen, IsChoice};

    /// Creates a selection of the given documents. Sorts the ids and removes duplicates.
    ///
    /// # Errors
    ///
    /// - `NoneChosen`: the list `ids` is empty.
    /// - `TooManyChosen`: there are more than 1,000 distinct ids.
    /// - `Memory`: an allocation failed. The call returns `Memory` only if no other error applies.
    pub fn new(ids: Vec<DocId>) -> Result<Chosen, DocFault>
        ensures answer { GivesUnlessMemory result (chosen_answer ids.items) }
        ensures choice { IfOk result IsChoice }
    {
        if ids.is_empty() {
            return Err(DocFault::NoneChosen);
        }
        let ids = in_order(ids);
        if ids.len() > MOST {
            return Err(DocFault::TooManyChosen);
        }
        are_texts(&ids);
        let marks = mark(*ids.allocator(), &ids)?;
        let ids = ArcSlice::from_vec(ids)?;
        Ok(Chosen { ids, marks })
    }

    /// Returns the ids in byte order.
    pub fn ids(&self) -> &[DocId]
        ensures ids { result.now ≡ self.now }
        ensures choice { IsChoice self.now }
    {
        self.ids.as_slice()
    }

    /// Whether the selection contains a document id.
    pub fn has(&self, id: &DocId) -> bool
        ensures { result ≡ is_chosen (Some self.now) id.now }
    {
        is_marked(self.marks.as_slice(), id) && self.ids().binary_search(id).is_ok()
    }

    /// Copies the selection. The copy of a selection shares the selection's ids.
    pub fn copy(&self) -> Result<Chosen, AllocError>
        ensures copied { IfOk result (λ c. c ≡ self.now) }
    {
        Ok(Chosen {
            ids: self.ids.clone()?,
            marks: self.marks.clone()?,
        })
    }
}

/// Whether an optional selection contains a document id. If there is no selection, the call returns true for every
/// document.
pub fn is_chosen(chosen: Option<&Chosen>, id: &DocId) -> bool
    ensures { result ≡ is_chosen (option_copied chosen.entry) id.now }
{
    match chosen {
        Some(chosen) => chosen.has(id),
        None => true,
    }
}

/// Sorts ids and removes duplicates.
fn in_order(ids: Vec<DocId>) -> Vec<DocId>
    ensures ids { result.items ≡ ids_of ids.items }
    ensures rising { IsStrictlySortedBy (slice_cmp nat_cmp) result.items }
    ensures some { 0 < length ids.items → 0 < length result.items }
{
    let mut ids = ids;
    ids.sort_unstable();
    ids.dedup();
    ids
}

/// Makes a fact available to proofs: each document id in a list is a string of bytes.
fn are_texts(ids: &[DocId])
    ensures { AllByRecursion IsText ids.now }
{
    for id in ids {
        let _bytes = id.text().as_bytes();
    }
}

impl Debug for Chosen {
    fn fmt<W: Write>(&self, f: &mut Formatter<W>) -> Result<(), Error> {
        self.ids().fmt(f)
    }
}

impl PartialEq for Chosen {
    ghost eq = { pointwise (pointwise nat_eq) };

    ghost laws = { Cmp.partial_equiv_from_equiv (lists_equiv nat_list_eq_equiv) };

    fn eq(&self, other: &Chosen) -> bool {
        self.ids() == other.ids()
    }
}

impl Eq for Chosen {
    ghost laws = { lists_equiv nat_list_eq_equiv };
}

impl PartialOrd for Chosen {
    ghost partial_cmp = { as_partial_cmp (slice_cmp (slice_cmp nat_cmp)) };

    ghost laws = { choices_po };

    fn partial_cmp(&self, other: &Chosen) -> Option<Ordering> {
        Some(self.cmp(other))
    }
}

impl Ord for Chosen {
    ghost cmp = { slice_cmp (slice_cmp nat_cmp) };

    ghost total = { lists_total nat_list_cmp_total };

    ghost matches_partial_cmp = { λ _ _. refl };

    ghost matches_eq = { lists_ties (slice_cmp nat_cmp) texts_ties };

    fn cmp(&self, other: &Chosen) -> Ordering {
        self.ids().cmp(other.ids())
    }
}

impl Hash for Chosen {
    ghost hash_input = { fed.slice (λ id. id ∷ []) };

    ghost respects_eq = { (items_Alike id_alike).fed };

    fn hash<H: Hasher>(&self, state: &mut H) {
        self.ids().hash(state);
    }
}
