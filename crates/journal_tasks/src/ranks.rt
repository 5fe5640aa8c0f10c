//! Orders the leaves of a document by their ranks.
ghost use Rattle.std.specs.Prelude.{◌≡◌, IfOk, OnOk, map};
ghost use Rattle.std.specs.List.{list_any, prefix_len};
ghost use Rattle.journal_lines.specs.Leafs.{head_view, knows_rev};
ghost use Rattle.journal_tasks.specs.Conflicting.{heads_view, ranked_leaves};
ghost use Rattle.journal_tasks.specs.Ranking.{insert_ranked, is_above, is_ancestor, number_in, outranks, rev_parts};

use journal_lines::Leaf;
use std::alloc::{AllocError, Global};

/// Returns the number in a text, or `None` if the text is not a number below 2^64.
fn number_of(text: &str) -> Option<u64>
    ensures { result ≡ number_in text.now }
{
    match text.parse::<u64>() {
        Ok(number) => Some(number),
        Err(_) => None,
    }
}

/// Splits a revision id at the first `-` into the generation and the signature. If no generation precedes a `-`,
/// returns 0 and the complete revision id.
fn parts_of(rev: &str) -> (u64, &str)
    ensures { (result.0, result.1.now) ≡ rev_parts rev.now }
{
    match rev.split_once('-') {
        Some((text, name)) => match number_of(text) {
            Some(generation) => (generation, name),
            None => (0, rev),
        },
        None => (0, rev),
    }
}

/// Whether a revision id has a greater generation than another one. If the generations are equal, whether it has a
/// greater signature.
fn is_above(rev: &str, other: &str) -> bool
    ensures { result ≡ is_above (rev_parts rev.now) (rev_parts other.now) }
{
    let (generation, name) = parts_of(rev);
    let (other_generation, other_name) = parts_of(other);
    if generation == other_generation {
        return name > other_name;
    }
    generation > other_generation
}

/// Whether a leaf outranks another leaf. A live leaf outranks a deleted leaf. Of two live or two deleted leaves, the
/// leaf with the greater generation outranks the other. If two leaves have equal deleted flags and generations, the leaf
/// with the greater signature outranks the other.
fn outranks(leaf: &Leaf, other: &Leaf) -> bool
    ensures { result ≡ outranks (head_view leaf.now) (head_view other.now) }
{
    let above = is_above(leaf.rev.as_str(), other.rev.as_str());
    if leaf.deleted {
        other.deleted && above
    } else {
        other.deleted || above
    }
}

/// Whether a revision is an ancestor of another one of the given revisions.
fn is_ancestor(alloc: Global, leaves: &[Leaf], rev: &str) -> Result<bool, AllocError>
    ensures { IfOk result (λ is. is ≡ is_ancestor (heads_view leaves.now) rev.now) }
{
    for leaf in leaves {
        if leaf.rev.as_str() != rev && leaf.knows(alloc, rev)? {
            return Ok(true);
        }
    }
    Ok(false)
}

/// Returns the number of leaves that precede the first leaf that does not outrank the given leaf.
fn place_of(ranked: &[&Leaf], leaf: &Leaf) -> usize
    ensures { result ≡ prefix_len (λ known. outranks (head_view known.now) (head_view leaf.now)) ranked.now }
{
    let mut place = 0;
    for known in ranked {
        if !outranks(*known, leaf) {
            return place;
        }
        place += 1;
    }
    place
}

/// Adds a leaf to a list of leaves, highest rank first.
fn insert_ranked<'a>(ranked: &mut Vec<&'a Leaf>, leaf: &'a Leaf) -> Result<(), AllocError>
    ensures { OnOk result (map (λ known. head_view known.now) ranked.new.items
        ≡ insert_ranked (head_view leaf.now) (map (λ known. head_view known.now) ranked.old.items)) }
{
    let place = place_of(ranked.as_slice(), leaf);
    ranked.insert(place, leaf)?;
    Ok(())
}

/// Returns the leaves among the given revisions of a document, highest rank first. The result omits each revision that
/// is an ancestor of another one of the given revisions.
pub(crate) fn rank_leaves(alloc: Global, leaves: &[Leaf]) -> Result<Vec<&Leaf>, AllocError>
    ensures { IfOk result (λ ranked. map (λ leaf. head_view leaf.now) ranked.items
        ≡ ranked_leaves (heads_view leaves.now)) }
{
    let mut ranked = Vec::new(alloc);
    for leaf in leaves {
        if !is_ancestor(alloc, leaves, leaf.rev.as_str())? {
            insert_ranked(&mut ranked, leaf)?;
        }
    }
    Ok(ranked)
}
