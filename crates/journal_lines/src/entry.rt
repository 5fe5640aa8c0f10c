//! Parses a line of a journal.
ghost use Rattle.std.specs.Prelude.{◌≡◌, IfOk};
ghost use Rattle.journal_lines.specs.Lists.{leaves_in};
ghost use Rattle.journal_lines.specs.Entries.{entry_in, entry_view, lacks_or_wrong, state_or_wrong};

use crate::leaf::{Leaf, leaf_of};
use crate::leaves::{Leaves, leaves_of};
use crate::text::after;
use json::Scratch;
use std::alloc::{AllocError, Global};

/// The parsed form of a line of a journal.
#[derive(Drop)]
pub enum Entry {
    /// A `state` line, which lists the leaves of a document at a sequence.
    State(Leaves),
    /// A `lacks` line, which lists a document's requested leaves. The source did not return all of these leaves.
    Lacks(Leaves),
    /// A line with a document.
    Leaf(Leaf),
    /// A journal line that is neither a `state` line, nor a `lacks` line, nor a line with a document.
    Wrong,
}

/// Parses a line of a journal.
pub fn entry_of(alloc: Global, scratch: &mut Scratch, line: &[u8]) -> Result<Entry, AllocError>
    ensures { IfOk result (λ entry. entry_view entry ≡ entry_in line.now) }
{
    if let Some(rest) = after(b"state ".as_slice(), line) {
        return state_of(alloc, scratch, rest);
    }
    if let Some(rest) = after(b"lacks ".as_slice(), line) {
        return lacks_of(alloc, scratch, rest);
    }
    match leaf_of(alloc, scratch, line)? {
        Some(leaf) => Ok(Entry::Leaf(leaf)),
        None => Ok(Entry::Wrong),
    }
}

/// Parses the text of a `state` line after `state `. Returns `Wrong` if the text does not list leaves.
fn state_of(alloc: Global, scratch: &mut Scratch, rest: &[u8]) -> Result<Entry, AllocError>
    ensures { IfOk result (λ entry. entry_view entry ≡ state_or_wrong (leaves_in rest.now)) }
{
    match leaves_of(alloc, scratch, rest)? {
        Some(leaves) => Ok(Entry::State(leaves)),
        None => Ok(Entry::Wrong),
    }
}

/// Parses the text of a `lacks` line after `lacks `. Returns `Wrong` if the text does not list leaves.
fn lacks_of(alloc: Global, scratch: &mut Scratch, rest: &[u8]) -> Result<Entry, AllocError>
    ensures { IfOk result (λ entry. entry_view entry ≡ lacks_or_wrong (leaves_in rest.now)) }
{
    match leaves_of(alloc, scratch, rest)? {
        Some(leaves) => Ok(Entry::Lacks(leaves)),
        None => Ok(Entry::Wrong),
    }
}
