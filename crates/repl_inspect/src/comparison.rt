//! Compares one document of a source with the target's document.
ghost use Rattle.std.specs.Prelude.{◌≡◌, true, filter, IfOk};
ghost use Rattle.std.specs.List.{list_all};
ghost use Rattle.std.specs.Option.{option_copied};
ghost use Rattle.rev_tree.specs.Tree.{has, leaves};
ghost use Rattle.repl_inspect.specs.Comparing.{compared, contradiction_under, differs, same_content};

use rev_core::Rev;
use rev_tree::{Content, Contradiction, Revs, Tree};
use std::alloc::{AllocError, Global};
use std::marker::Model;

/// The differences between one document of a source and the target's document.
pub struct Comparison {
    leaves: usize,
    missing: Revs,
    contradiction: Option<Contradiction>,
    differing: Vec<Rev>,
}

// A derived implementation of `Drop` would be proved again in each crate that owns a value of this type
// (docs/DECISIONS.md, "Letting values go").
impl Drop for Comparison {
    fn drop(self) {
        let Comparison {
            leaves: _,
            missing: _,
            contradiction: _,
            differing: _,
        } = self;
    }
}

impl Model for Comparison {
    ghost use Rattle.repl_inspect.specs.Comparing.{ComparisonValue};

    ghost Value = { ComparisonValue };

    ghost view = { λ c. record {
      leaves = c.leaves;
      missing = c.missing;
      contradiction = c.contradiction;
      differing = c.differing.items;
    } };
}

impl Comparison {
    ghost use Rattle.repl_inspect.specs.Comparing.{ComparisonValue};

    /// Returns the number of leaves of the source's document.
    pub fn leaves(&self) -> usize
        ensures { result ≡ self.now.leaves }
    {
        self.leaves
    }

    /// Returns the source's leaves that the target's tree lacks, winner first.
    pub fn missing(&self) -> &[Rev]
        ensures { result.now ≡ self.now.missing }
    {
        self.missing.as_slice()
    }

    /// Searches the missing leaves' ancestries for the first revision that has different parents at source and target.
    /// Returns the found revision and its two parents, or `None` if the search finds no revision. The search takes the
    /// missing leaves in order, and reads each leaf's ancestry from the newest revision to the oldest. If the call
    /// returns a revision, the target would refuse the missing leaf whose ancestry contains this revision.
    pub fn contradiction(&self) -> Option<Contradiction>
        ensures { result ≡ self.now.contradiction }
    {
        self.contradiction
    }

    /// Returns the source's leaves whose contents at source and target differ, winner first.
    pub fn differing(&self) -> &[Rev]
        ensures { result.now ≡ self.now.differing }
    {
        &self.differing
    }
}

/// Compares a document's tree at a source with the target's tree.
pub(crate) fn compare_trees(
    alloc: Global,
    source: &Tree,
    target: &Tree,
) -> Result<Comparison, AllocError>
    ensures { IfOk result (λ c. c ≡ compared source.now target.now) }
{
    let leaves = source.leaves(alloc)?;
    let missing = target.missing(alloc, leaves.as_slice())?;
    let contradiction = first_under(alloc, source, target, missing.as_slice())?;
    let differing = differing_of(alloc, source, target, leaves.as_slice())?;
    Ok(Comparison {
        leaves: leaves.as_slice().len(),
        missing,
        contradiction,
        differing,
    })
}

/// Searches the given leaves' ancestries for the first revision that has different parents at source and target.
/// Returns the found revision and its two parents, or `None` if the search finds no revision. The given leaves are
/// leaves of the source's document.
fn first_under(
    alloc: Global,
    source: &Tree,
    target: &Tree,
    leaves: &[Rev],
) -> Result<Option<Contradiction>, AllocError>
    requires { list_all (has source.now) leaves.now ≡ true }
    ensures { IfOk result (λ c. c ≡ contradiction_under source.now target.now leaves.now) }
{
    for leaf in leaves {
        let ancestry = source.known_ancestry(alloc, *leaf)?;
        if let Err(contradiction) = target.merge_answer(&ancestry) {
            return Ok(Some(contradiction));
        }
    }
    Ok(None)
}

/// Returns the given leaves whose contents differ between the two trees.
fn differing_of(
    alloc: Global,
    source: &Tree,
    target: &Tree,
    leaves: &[Rev],
) -> Result<Vec<Rev>, AllocError>
    ensures { IfOk result (λ v. v.items ≡ filter (differs source.now target.now) leaves.now) }
{
    let mut found = Vec::new(alloc);
    for leaf in leaves {
        if is_other(source, target, *leaf) {
            found.push(*leaf)?;
        }
    }
    Ok(found)
}

/// Whether both trees have a content of a revision, and the two contents differ.
fn is_other(source: &Tree, target: &Tree, rev: Rev) -> bool
    ensures { result ≡ differs source.now target.now rev }
{
    match source.content(rev) {
        Some(ours) => match target.content(rev) {
            Some(theirs) => !is_same(ours, theirs),
            None => false,
        },
        None => false,
    }
}

/// Whether two contents are equal.
fn is_same(ours: &Content, theirs: &Content) -> bool
    ensures { result ≡ same_content ours.now theirs.now }
{
    ours.deleted() == theirs.deleted() && ours.body() == theirs.body()
}
