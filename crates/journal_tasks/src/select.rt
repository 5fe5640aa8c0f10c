//! The task that selects the documents that a restore sends.
ghost use Rattle.std.specs.Prelude.{◌≡◌, ◌++◌, ◌∷◌, ◌&&◌, ◌||◌, ◌⊎◌, [], ℕ, Bool, List, IfErr, IfOk, OnErr, OnOk, bytes_eq, codes, false, if◌then◌else◌, is_none, length, map, nat_eq, not, option_map, string_bytes, true};
ghost use Rattle.script_engine.specs.Faults.{IsFaultOf};
ghost use Rattle.std.specs.Io.KnownBytes.{Appends};
ghost use Rattle.sha2.specs.Hashers.{Holds256};
ghost use Rattle.sha2.specs.Sha256.{sha256};
ghost use Rattle.line_reader.specs.Tasks.{HasPrinted, HasPrintedPart};
ghost use Rattle.journal_core.specs.Places.{IsAt, Place, is_confirmed};
ghost use Rattle.journal_lines.specs.Lists.{texts_of};
ghost use Rattle.journal_tasks.specs.Arguments.{EndsFor, StepsFor};
ghost use Rattle.journal_tasks.specs.Selecting.{Choice, HasSelected, IsOpening, IsSelecting, choice_of, first_copy, has_number, is_number, is_number_of, is_selected, lacks_number, number_at, other_hash, second_copy, selected_leaves, selected_revs};
ghost use Rattle.journal_tasks.specs.Stating.{IsReading, place_of, states_view};

use crate::journal::Journal;
use crate::numbers::{Numbers, note_number, number_of};
use crate::state_map::StateMap;
use indexmap::{IndexMap, IndexSet};
use journal_core::added;
use line_reader::{LineTask, run_task};
use script_engine::{ScriptFault, ScriptRead, ScriptWrite};
use sha2::{Digest, Sha256};
use std::alloc::{AllocError, Global};
use std::mem;

/// The options that say which documents are selected.
#[derive(Drop)]
pub struct Filter {
    /// The id of the only document that is selected, or `None` for all documents.
    pub id: Option<String>,
    /// Whether only documents with two or more leaves are selected.
    pub several: bool,
    /// Whether the task selects documents without checking the journal's checksums.
    pub unverified: bool,
}

/// The task's input is two copies of one journal. For each leaf in the last state of a selected document, the task
/// prints the last journal line that has this leaf. The task prints lines only if the journal's checksums confirm the
/// first copy in the input, or if the option `unverified` is set.
///
/// The task holds in memory one block, the state of each document, and one entry for each leaf.
#[derive(Drop)]
pub struct Select {
    alloc: Global,
    journal: Journal,
    size: u64,
    filter: Filter,
    /// The number of bytes that were read of the journal's first copy.
    bytes: u64,
    /// For each leaf, the number of the last line of the first copy that has the leaf.
    numbers: Numbers,
    hasher: Sha256,
    /// The hash of the journal's first copy, after the copy was read.
    first: Option<[u8; 32]>,
    /// The numbers of the lines to print.
    selected: IndexSet<u64>,
    /// The number of lines that were read of the journal's second copy.
    seconds: u64,
    damaged: bool,
    lacks: bool,
    differs: bool,
}

/// Whether a document with the given id and leaves is selected.
fn is_selected(filter: &Filter, id: &str, revs: &[String]) -> bool
    ensures { result ≡ is_selected filter.now.several (option_map string_bytes filter.now.id) id.now (length revs.now) }
{
    if filter.several && revs.len() < 2 {
        return false;
    }
    match &filter.id {
        Some(only) => only.as_str() == id,
        None => true,
    }
}

/// Selects the last line that has a leaf. Returns whether no line has the leaf.
fn select_leaf(
    numbers: &Numbers,
    selected: &mut IndexSet<u64>,
    id: &str,
    rev: &str,
) -> Result<bool, AllocError>
    ensures lacks { IfOk result (λ lacks. lacks ≡ is_none (number_at numbers.now id.now rev.now)) }
    ensures selected { OnOk result ((number : ℕ) → has_number selected.new number
        ≡ (has_number selected.old number || is_number number (number_at numbers.now id.now rev.now))) }
{
    match number_of(numbers, id, rev) {
        Some(number) => {
            selected.insert(number)?;
            Ok(false)
        }
        None => Ok(true),
    }
}

/// Selects, for each leaf of a document, the last line that has the leaf. Returns whether a leaf has no line.
fn select_doc(
    numbers: &Numbers,
    selected: &mut IndexSet<u64>,
    id: &str,
    revs: &[String],
) -> Result<bool, AllocError>
    ensures lacks { IfOk result (λ lacks. lacks
        ≡ lacks_number (number_at numbers.now) (map (λ rev. (id.now, rev)) (texts_of revs.now))) }
    ensures selected { OnOk result ((number : ℕ) → has_number selected.new number ≡ (has_number selected.old number
        || is_number_of (number_at numbers.now) (map (λ rev. (id.now, rev)) (texts_of revs.now)) number)) }
{
    let mut lacks = false;
    for rev in revs {
        let lacking = select_leaf(numbers, selected, id, rev.as_str())?;
        lacks = lacks | lacking;
    }
    Ok(lacks)
}

/// Selects, for each leaf of a document, the last line that has the leaf, if the document is selected. Returns whether
/// the document is selected, and a leaf has no line.
fn select_one(
    numbers: &Numbers,
    filter: &Filter,
    selected: &mut IndexSet<u64>,
    id: &str,
    revs: &[String],
) -> Result<bool, AllocError>
    ensures lacks { IfOk result (λ lacks. lacks ≡ lacks_number (number_at numbers.now)
        (selected_revs filter.now.several (option_map string_bytes filter.now.id) id.now (texts_of revs.now))) }
    ensures selected { OnOk result ((number : ℕ) → has_number selected.new number ≡ (has_number selected.old number
        || is_number_of (number_at numbers.now)
        (selected_revs filter.now.several (option_map string_bytes filter.now.id) id.now (texts_of revs.now)) number)) }
{
    if !is_selected(filter, id, revs) {
        return Ok(false);
    }
    select_doc(numbers, selected, id, revs)
}

/// Selects, for each leaf of a selected document, the last line that has the leaf. Returns whether a leaf of a selected
/// document has no line.
fn select_all(
    numbers: &Numbers,
    states: &StateMap,
    filter: &Filter,
    selected: &mut IndexSet<u64>,
) -> Result<bool, AllocError>
    ensures lacks { IfOk result (λ lacks. lacks ≡ lacks_number (number_at numbers.now)
        (selected_leaves filter.now.several (option_map string_bytes filter.now.id) (states_view states.now))) }
    ensures selected { OnOk result ((number : ℕ) → has_number selected.new number ≡ (has_number selected.old number
        || is_number_of (number_at numbers.now)
        (selected_leaves filter.now.several (option_map string_bytes filter.now.id) (states_view states.now)) number)) }
{
    let mut lacks = false;
    for index in 0..states.len() {
        let Some((id, state)) = states.get_index(index) else {
            return Ok(lacks);
        };
        let revs = state.revs.as_slice();
        let lacking = select_one(numbers, filter, selected, id.as_str(), revs)?;
        lacks = lacks | lacking;
    }
    Ok(lacks)
}

/// Whether two hashes differ.
fn is_other(one: &[u8; 32], other: &[u8; 32]) -> bool
    ensures { result ≡ not (bytes_eq one.now other.now) }
{
    let same = one.as_slice() == other.as_slice();
    !same
}

/// Whether the two copies differ. The arguments are the hash of the first copy, if this copy was read completely, the
/// hash of the second copy, and the bytes after the input's last line end.
fn is_copy_other(first: &Option<[u8; 32]>, second: &[u8; 32], rest: &[u8]) -> bool
    ensures { result ≡ other_hash first.now second.now rest.now }
{
    match first {
        Some(first) => is_other(first, second) || !rest.is_empty(),
        None => true,
    }
}

/// Adds a line with its line end to the bytes that a hasher has read.
fn hash_line(hasher: &mut Sha256, line: &[u8])
    ensures { (bytes : List ℕ) → Holds256 hasher.old bytes → Holds256 hasher.new (bytes ++ (line.now ++ 10 ∷ [])) }
{
    hasher.update(line);
    hasher.update(b"\n".as_slice());
}

/// Returns the hash of all bytes that the hasher has read, and begins a new hash.
fn take_hash(hasher: &mut Sha256) -> [u8; 32]
    ensures hash { (bytes : List ℕ) → Holds256 hasher.old bytes → result ≡ sha256 bytes }
    ensures new { Holds256 hasher.new [] }
{
    let old = mem::replace(hasher, Sha256::new());
    old.finalize()
}

/// Appends a line with its line end to the text, if `printed` is true.
fn push_line(text: &mut Vec<u8>, printed: bool, line: &[u8]) -> Result<(), AllocError>
    ensures { OnOk result (text.new.items ≡ text.old.items ++ (if printed then line.now ++ codes "\n" else [])) }
{
    if printed {
        text.extend_from_slice(line)?;
        text.push(b'\n')?;
    }
    Ok(())
}

impl Select {
    /// Creates the task for a journal of `size` bytes.
    pub fn new(alloc: Global, size: u64, filter: Filter) -> Result<Select, AllocError>
        ensures { IfOk result (IsSelecting (choice_of size filter) [] []) }
    {
        let journal = Journal::new(alloc, filter.unverified)?;
        let mut task = Select {
            alloc,
            journal,
            size,
            filter,
            bytes: 0,
            numbers: IndexMap::new(alloc),
            hasher: Sha256::new(),
            first: None,
            selected: IndexSet::new(alloc),
            seconds: 0,
            damaged: false,
            lacks: false,
            differs: false,
        };
        task.end_first()?;
        Ok(task)
    }

    /// Returns the number (from 1) of the first line of the journal's first copy that is not a valid line of a journal.
    pub fn wrong(&self) -> Option<u64>
        ensures { result ≡ self.now.journal.count.wrong }
    {
        self.journal.count.wrong
    }

    /// Returns the number of confirmed lines of the journal's first copy.
    pub fn confirmed_lines(&self) -> u64
        ensures { (place : Place) → IsAt self.now.journal.blocks place → result ≡ length place.confirmed }
    {
        self.journal.blocks.lines()
    }

    /// Whether the first copy of the journal in the input is damaged. A copy is undamaged if it has exactly `size`
    /// bytes in complete lines, and the journal's checksums confirm all these lines. With the option `unverified`, the
    /// task checks only the size of the journal's copy, and not its checksums.
    pub fn is_damaged(&self) -> bool
        ensures { result ≡ self.now.damaged }
    {
        self.damaged
    }

    /// Whether the second copy of the journal differs from the first copy.
    pub fn differs(&self) -> bool
        ensures { result ≡ self.now.differs }
    {
        self.differs
    }

    /// Whether the last state of a selected document names a leaf that is missing from the journal's lines.
    pub fn lacks(&self) -> bool
        ensures { result ≡ self.now.lacks }
    {
        self.lacks
    }

    /// Whether the first copy was not read completely.
    fn is_in_first(&self) -> bool
        ensures { result ≡ is_none self.now.first }
    {
        self.first.is_none()
    }

    /// Whether the first copy has the right size, and the checksums confirm all of its lines, if they are not ignored.
    fn is_intact(&self) -> bool
        ensures { (unverified : Bool) (lines : List (List ℕ)) → IsReading unverified lines self.now.journal
            → result ≡ (nat_eq self.now.bytes self.now.size && is_confirmed (place_of unverified lines)) }
    {
        self.bytes == self.size && self.journal.is_confirmed()
    }

    /// Checks the journal's first copy, if all of its bytes were read. If the copy is not damaged, selects the lines to
    /// print.
    fn end_first(&mut self) -> Result<(), AllocError>
        ensures { OnOk result ((choice : Choice) (lines : List (List ℕ)) → IsOpening choice lines self.old
            → first_copy choice.size lines ≡ lines → second_copy choice.size lines ≡ []
            → IsSelecting choice lines [] self.new) }
    {
        if self.bytes < self.size {
            return Ok(());
        }
        self.first = Some(take_hash(&mut self.hasher));
        if !self.is_intact() {
            self.damaged = true;
            return Ok(());
        }
        let lacks = select_all(
            &self.numbers,
            &self.journal.states,
            &self.filter,
            &mut self.selected,
        )?;
        self.lacks = lacks;
        Ok(())
    }

    /// Reads a line of the journal's first copy.
    fn first_line(&mut self, line: &[u8]) -> Result<(), AllocError>
        requires { is_none self.old.first ≡ true }
        ensures { OnOk result (StepsFor IsSelecting self.old line.now [] self.new) }
    {
        hash_line(&mut self.hasher, line);
        let bytes = added(self.bytes, line.len() as u64)?;
        self.bytes = added(bytes, 1)?;
        let leaf = self.journal.line(line)?;
        let number = self.journal.count.lines;
        note_number(self.alloc, &mut self.numbers, leaf, number)?;
        self.end_first()?;
        Ok(())
    }

    /// Whether the last line that was read of the second copy is printed.
    fn is_printed(&self) -> bool
        ensures { result ≡ (not self.now.damaged && is_none self.now.journal.count.wrong
            && has_number self.now.selected self.now.seconds) }
    {
        !self.damaged && self.journal.count.is_right() && self.selected.contains(&self.seconds)
    }

    /// Reads a line of the second copy of the journal in the input, and appends the line to the output if the line is
    /// selected.
    fn second_line(&mut self, line: &[u8], text: &mut Vec<u8>) -> Result<(), AllocError>
        requires first { is_none self.old.first ≡ false }
        requires empty { text.old.items ≡ [] }
        ensures { OnOk result (StepsFor IsSelecting self.old line.now text.new.items self.new) }
    {
        hash_line(&mut self.hasher, line);
        self.seconds = added(self.seconds, 1)?;
        let printed = self.is_printed();
        push_line(text, printed, line)?;
        Ok(())
    }
}

impl LineTask for Select {
    ghost steps = { StepsFor IsSelecting };

    ghost ends = { EndsFor IsSelecting HasSelected };

    fn line(&mut self, line: &[u8], text: &mut Vec<u8>) -> Result<(), AllocError> {
        if self.is_in_first() {
            return self.first_line(line);
        }
        self.second_line(line, text)
    }

    fn end(&mut self, rest: &[u8], _text: &mut Vec<u8>) -> Result<(), AllocError> {
        let second = take_hash(&mut self.hasher);
        self.differs = is_copy_other(&self.first, &second, rest);
        self.damaged = self.damaged | self.is_in_first();
        Ok(())
    }
}

/// Reads two copies of a journal of `size` bytes, and writes the last line of each leaf in the last state of a selected
/// document. If the checksums do not confirm the first copy, and `filter` does not ignore checksums, the call does not
/// write any line.
///
/// # Errors
///
/// Returns `Read` if the reader failed in this call, or after 4,294,967,295 reads of at most 65,536 bytes. Returns
/// `Write` if the writer failed in this call. Returns `Memory` if an allocation failed, or if a count is at its
/// maximum.
pub fn select_lines<R: ScriptRead, W: ScriptWrite>(
    alloc: Global,
    size: u64,
    filter: Filter,
    reader: &mut R,
    writer: &mut W,
) -> Result<Select, ScriptFault>
    ensures took { IfOk result (λ task. (input text : List ℕ) × Appends (R.taken reader.old) (R.taken reader.new) input
        × Appends (W.held writer.old) (W.held writer.new) text
        × HasPrinted (HasSelected (choice_of size filter)) input text task) }
    ensures stopped { OnErr result ((input text : List ℕ) × Appends (R.taken reader.old) (R.taken reader.new) input
        × Appends (W.held writer.old) (W.held writer.new) text
        × ((text ≡ []) ⊎ HasPrintedPart (IsSelecting (choice_of size filter)) (HasSelected (choice_of size filter))
        (R.ended reader.new) input text)) }
    ensures ended { OnOk result (R.ended reader.new) }
    ensures counted { OnOk result ((R.failures reader.new ≡ R.failures reader.old)
        × (W.failures writer.new ≡ W.failures writer.old)) }
    ensures fault { IfErr result (λ fault. IsFaultOf fault (R.reads reader.old) (R.reads reader.new)
        (R.failures reader.old) (R.failures reader.new) (W.failures writer.old) (W.failures writer.new)) }
{
    let mut task = Select::new(alloc, size, filter)?;
    match run_task(alloc, &mut task, reader, writer) {
        Ok(()) => {}
        Err(fault) => return Err(fault),
    }
    Ok(task)
}
