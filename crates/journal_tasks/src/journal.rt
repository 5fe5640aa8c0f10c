//! Reads a journal for the tasks that need the last state of each document.
ghost use Rattle.std.specs.Prelude.{◌≡◌, ◌++◌, ◌∷◌, ◌&&◌, ◌||◌, [], ℕ, List, Bool, IfOk, OnOk, nat_eq, is_none, length, not, option_map};
ghost use Rattle.journal_core.specs.Journal.{is_sum};
ghost use Rattle.journal_core.specs.Places.{IsAt, Place, is_confirmed, next};
ghost use Rattle.journal_lines.specs.Entries.{entry_in, entry_view};
ghost use Rattle.journal_lines.specs.Leafs.{head_view};
ghost use Rattle.journal_tasks.specs.Counting.{counted_as};
ghost use Rattle.journal_tasks.specs.Lists.{is_wrong_entry};
ghost use Rattle.journal_tasks.specs.Stating.{IsReading, head_in, head_read, is_right, place_of, stated_by, states_view};

use crate::count::Count;
use crate::state_map::{StateMap, add_leaf, name_state};
use indexmap::IndexMap;
use journal_core::{Blocks, Took};
use journal_lines::{Entry, Leaf, entry_of};
use json::Scratch;
use std::alloc::{AllocError, Global};

/// The part of a journal that was read, with the last state of each document.
///
/// A `Journal` holds one block and the state of each document in memory.
#[derive(Drop)]
pub(crate) struct Journal {
    alloc: Global,
    scratch: Scratch,
    pub(crate) count: Count,
    pub(crate) blocks: Blocks,
    unverified: bool,
    /// Whether the checksums have shown that the journal is damaged.
    pub(crate) damaged: bool,
    pub(crate) states: StateMap,
}

/// Whether a line of a journal ends a block.
pub(crate) fn is_sum(line: &[u8]) -> bool
    ensures { result ≡ is_sum line.now }
{
    line.starts_with(b"sum ".as_slice())
}

/// Whether the checksums have not shown damage, given the result of reading a line.
fn is_right(took: &Took) -> bool
    ensures { result ≡ is_right took.now }
{
    match took {
        Took::Held | Took::Closed(_) => true,
        Took::Damaged => false,
    }
}

/// Checks a line of a journal, unless the checksums are ignored (`unverified`). Returns whether the checksums have not
/// shown damage.
fn verify(blocks: &mut Blocks, unverified: bool, line: &[u8]) -> Result<bool, AllocError>
    ensures { IfOk result (λ right. (lines : List (List ℕ)) → IsAt blocks.old (place_of unverified lines)
        → IsAt blocks.new (place_of unverified (lines ++ line.now ∷ []))
        × (right ≡ (place_of unverified (lines ++ line.now ∷ [])).whole)) }
{
    if unverified {
        return Ok(true);
    }
    let took = blocks.take(line)?;
    Ok(is_right(&took))
}

/// Reads the content of a line that does not end a block. Returns the document of the line, if the line has a document.
fn note(
    alloc: Global,
    states: &mut StateMap,
    count: &mut Count,
    entry: Entry,
) -> Result<Option<Leaf>, AllocError>
    ensures head { IfOk result (λ leaf. option_map head_view leaf ≡ head_in (entry_view entry)) }
    ensures states { OnOk result (states_view states.new ≡ stated_by (entry_view entry) (states_view states.old)) }
    ensures count { OnOk result (count.new ≡ counted_as (is_wrong_entry (entry_view entry)) count.old) }
{
    match entry {
        Entry::State(leaves) => {
            name_state(states, leaves)?;
            Ok(None)
        }
        Entry::Leaf(leaf) => {
            add_leaf(alloc, states, leaf.id.as_str(), leaf.rev.as_str())?;
            Ok(Some(leaf))
        }
        Entry::Lacks(_) => Ok(None),
        Entry::Wrong => {
            count.fail();
            Ok(None)
        }
    }
}

impl Journal {
    /// Creates the reader of a journal. If `unverified` is true, the reader ignores the journal's checksums.
    pub(crate) fn new(alloc: Global, unverified: bool) -> Result<Journal, AllocError>
        ensures { IfOk result (λ journal. IsReading unverified [] journal) }
    {
        let blocks = Blocks::new(alloc)?;
        Ok(Journal {
            alloc,
            scratch: Scratch::new(alloc),
            count: Count::new(),
            blocks,
            unverified,
            damaged: false,
            states: IndexMap::new(alloc),
        })
    }

    /// Reads the next line of the journal. Returns the document of the line, if the line has a document, and the
    /// checksums have not shown damage.
    ///
    /// # Errors
    ///
    /// Returns an error if an allocation failed, or if a count is at its maximum.
    pub(crate) fn line(&mut self, line: &[u8]) -> Result<Option<Leaf>, AllocError>
        ensures { IfOk result (λ leaf. (unverified : Bool) (lines : List (List ℕ)) → IsReading unverified lines self.old
            → IsReading unverified (lines ++ line.now ∷ []) self.new
            × (option_map head_view leaf ≡ head_read (place_of unverified (lines ++ line.now ∷ [])) line.now)) }
    {
        self.count.add()?;
        if !verify(&mut self.blocks, self.unverified, line)? {
            self.damaged = true;
            return Ok(None);
        }
        if is_sum(line) {
            return Ok(None);
        }
        let entry = entry_of(self.alloc, &mut self.scratch, line)?;
        let leaf = note(self.alloc, &mut self.states, &mut self.count, entry)?;
        Ok(leaf)
    }

    /// Whether the checksums confirm all lines that were read. If the checksums are ignored, the result is true.
    pub(crate) fn is_confirmed(&self) -> bool
        ensures { (unverified : Bool) (lines : List (List ℕ)) → IsReading unverified lines self.now
            → result ≡ is_confirmed (place_of unverified lines) }
    {
        self.unverified || self.blocks.is_confirmed()
    }
}
