//! Stores the numbers of the journal lines that have leaves.
ghost use Rattle.std.specs.Prelude.{◌≡◌, List, Some, ℕ, OnOk, option_map};
ghost use Rattle.journal_lines.specs.Leafs.{head_view};
ghost use Rattle.journal_tasks.specs.Selecting.{noted_number, number_at, text_number};

use indexmap::IndexMap;
use journal_lines::Leaf;
use std::alloc::{AllocError, Global};

/// For each revision of a document, the number of the last line that has the revision.
type Lines = IndexMap<String, u64>;

/// For each leaf, by document id and revision, the number of the last line that has the leaf.
pub(crate) type Numbers = IndexMap<String, Lines>;

/// Returns the given numbers or, if the argument is `None`, an empty map.
fn or_empty(alloc: Global, lines: Option<Lines>) -> Lines
    ensures { (rev : List ℕ) → text_number (Some result) rev ≡ text_number lines rev }
{
    match lines {
        Some(lines) => lines,
        None => IndexMap::new(alloc),
    }
}

/// Stores that the line with the given number has a leaf.
fn put_number(
    alloc: Global,
    numbers: &mut Numbers,
    leaf: Leaf,
    number: u64,
) -> Result<(), AllocError>
    ensures { OnOk result ((id rev : List ℕ) → number_at numbers.new id rev
        ≡ noted_number (Some (head_view leaf)) number id rev (number_at numbers.old id rev)) }
{
    let id = String::from_str(alloc, leaf.id.as_str())?;
    let old = numbers.insert(id, IndexMap::new(alloc))?;
    let mut lines = or_empty(alloc, old);
    lines.insert(leaf.rev, number)?;
    numbers.insert(leaf.id, lines)?;
    Ok(())
}

/// Stores that the line with the given number has a document, if the line has a document.
pub(crate) fn note_number(
    alloc: Global,
    numbers: &mut Numbers,
    leaf: Option<Leaf>,
    number: u64,
) -> Result<(), AllocError>
    ensures { OnOk result ((id rev : List ℕ) → number_at numbers.new id rev
        ≡ noted_number (option_map head_view leaf) number id rev (number_at numbers.old id rev)) }
{
    match leaf {
        Some(leaf) => put_number(alloc, numbers, leaf, number),
        None => Ok(()),
    }
}

/// Returns the number of the last line that has a revision.
fn line_of(lines: Option<&Lines>, rev: &str) -> Option<u64>
    ensures { result ≡ text_number (option_map (λ lines. lines.now) lines.entry) rev.now }
{
    let Some(lines) = lines else {
        return None;
    };
    lines.get(rev).copied()
}

/// Returns the number of the last line that has a leaf, if such a line exists.
pub(crate) fn number_of(numbers: &Numbers, id: &str, rev: &str) -> Option<u64>
    ensures { result ≡ number_at numbers.now id.now rev.now }
{
    line_of(numbers.get(id), rev)
}
