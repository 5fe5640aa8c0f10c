//! The command `compare`, which prints how a target differs from a source's selected feed. The command does not use
//! replication logs.
ghost use Rattle.std.specs.Prelude.{◌≡◌, ◌++◌, ◌<◌, ◌≤◌, [], length, true, if◌then◌else◌, IfOk, OnOk};
ghost use Rattle.json_values.specs.LineView.{line_view};
ghost use Rattle.read_commands.specs.Compare.{FitsCompare, compare_left, compared_line, compared_part, comparison_lines, contradicts_line, found_part};

use crate::feed::{RowPrinter, Walk, fill};
use crate::rest::Rest;
use crate::streaming_command::StreamingCommand;
use command_api::{
    has_only_members, name_member, optional_texts, push_number, push_revs_line, read_choice,
};
use couch_base::{Database, Row};
use json_values::{Line, LineValue};
use repl_inspect::{Comparison, Total, compare};
use rev_tree::Contradiction;
use script_databases::{Databases, Refusal};
use std::alloc::{AllocError, Global};

/// The parameters of a `compare` line.
#[derive(Drop)]
pub struct Compare<'v, 'a> {
    pub source: &'v str,
    pub target: &'v str,
    /// The ids of the selected documents, which are strings. If the line gives no ids, all documents are selected.
    pub doc_ids: Option<&'v [LineValue<'a>]>,
}

impl<'v, 'a> StreamingCommand<&'v Line<'a>> for Compare<'v, 'a> {
    ghost use Rattle.read_commands.specs.Compare.{CompareAsk, Compares, compare_asked, compare_in};

    ghost seen = { λ line. line_view line.now };

    ghost Ask = { CompareAsk };

    ghost asked = { compare_asked };

    ghost asked_in = { compare_in };

    ghost answers = { Compares };

    fn read(line: &'v Line<'a>) -> Option<Compare<'v, 'a>> {
        let value = line.value();
        let source = name_member(value, "source")?;
        let target = name_member(value, "target")?;
        let doc_ids = optional_texts(value, "doc_ids")?;
        if !has_only_members(value, &["do", "source", "target", "doc_ids"]) {
            return None;
        }
        Some(Compare {
            source,
            target,
            doc_ids,
        })
    }

    fn begin(&self, alloc: Global, databases: &Databases) -> Result<Rest, Refusal> {
        let Some(_source) = databases.find(self.source) else {
            return Err(Refusal::NoDatabase);
        };
        let Some(_target) = databases.find(self.target) else {
            return Err(Refusal::NoDatabase);
        };
        let chosen = read_choice(alloc, self.doc_ids)?;
        let source = String::from_str(alloc, self.source)?;
        let target = String::from_str(alloc, self.target)?;
        let rest = CompareRest {
            source,
            target,
            walk: Walk { since: 0, chosen },
            total: Total::none(),
        };
        let block = Box::new(alloc, rest)?;
        Ok(Rest::Compare(block))
    }
}

/// The maximum number of feed rows that one read returns.
const PAGE: u64 = 100;

/// The part of the output of `compare` that is still to be printed, and the totals of the documents that were compared.
#[derive(Drop)]
pub struct CompareRest {
    pub source: String,
    pub target: String,
    pub walk: Walk,
    pub total: Total,
}

impl CompareRest {
    /// Appends the lines of documents until the piece of output is full. After the last document, the call appends the
    /// totals. Returns whether more of the command's output is left.
    pub fn more(
        &mut self,
        alloc: Global,
        databases: &Databases,
        piece: &mut Vec<u8>,
    ) -> Result<bool, AllocError>
        requires fits { FitsCompare databases.now self.old }
        ensures piece { IfOk result
            (λ more. piece.new.items ++ (if more then compare_left databases.now self.new else [])
            ≡ piece.old.items ++ compare_left databases.now self.old) }
        ensures some { IfOk result (λ more. more ≡ true → (65536 ≤ length piece.new.items)
            × (0 < length (compare_left databases.now self.new))) }
        ensures fits { OnOk result (FitsCompare databases.now self.new) }
    {
        let Some(source) = databases.find(self.source.as_str()) else {
            return Ok(false);
        };
        let Some(target) = databases.find(self.target.as_str()) else {
            return Ok(false);
        };
        let ours = source.db();
        let rows = ComparedRows {
            source: ours,
            target: target.db(),
        };
        let walk = &mut self.walk;
        if fill(alloc, piece, ours, walk, PAGE, &rows, &mut self.total)? {
            return Ok(true);
        }
        push_total(piece, &self.total)?;
        Ok(false)
    }
}

/// Prints the totals.
fn push_total(answer: &mut Vec<u8>, total: &Total) -> Result<(), AllocError>
    ensures { OnOk result (answer.new.items ≡ answer.old.items ++ compared_line total.now) }
{
    push_compared(answer, total)?;
    push_found(answer, total)?;
    answer.extend_from_slice(b"\n")
}

/// Appends the numbers of compared documents and leaves to the line of totals.
fn push_compared(answer: &mut Vec<u8>, total: &Total) -> Result<(), AllocError>
    ensures { OnOk result (answer.new.items ≡ answer.old.items ++ compared_part total.now) }
{
    answer.extend_from_slice(b"compared ")?;
    push_number(answer, total.documents)?;
    answer.extend_from_slice(b" documents ")?;
    push_number(answer, total.leaves)?;
    answer.extend_from_slice(b" leaves")
}

/// Appends the numbers of differences to the line of totals.
fn push_found(answer: &mut Vec<u8>, total: &Total) -> Result<(), AllocError>
    ensures { OnOk result (answer.new.items ≡ answer.old.items ++ found_part total.now) }
{
    answer.extend_from_slice(b" missing ")?;
    push_number(answer, total.missing)?;
    answer.extend_from_slice(b" contradicting ")?;
    push_number(answer, total.contradicting)?;
    answer.extend_from_slice(b" differing ")?;
    push_number(answer, total.differing)
}

/// Prints and counts the differences between each row's document and the target's document with the same id.
#[derive(Drop)]
struct ComparedRows<'a> {
    source: &'a Database,
    target: &'a Database,
}

impl<'a> RowPrinter for ComparedRows<'a> {
    ghost use Rattle.std.specs.Prelude.{◌≡◌};
    ghost use Rattle.repl_inspect.specs.Comparisons.{comparisons};
    ghost use Rattle.repl_inspect.specs.Totals.{total_of};
    ghost use Rattle.read_commands.specs.Compare.{compared_lines};

    type Tally = Total;

    ghost row_text = { λ p row. compared_lines p.source.now p.target.now row };

    ghost counts = { λ p total rows. total ≡ total_of (comparisons p.source.now p.target.now rows) };

    fn push_row(
        &self,
        alloc: Global,
        answer: &mut Vec<u8>,
        row: &Row,
        tally: &mut Total,
    ) -> Result<(), AllocError> {
        let comparison = compare(alloc, self.source, self.target, row.id())?;
        push_comparison(answer, row.id().text(), &comparison)?;
        tally.add(&comparison);
        Ok(())
    }
}

/// Prints the differences between the source's and the target's version of a document.
fn push_comparison(
    answer: &mut Vec<u8>,
    id: &str,
    comparison: &Comparison,
) -> Result<(), AllocError>
    ensures { OnOk result (answer.new.items ≡ answer.old.items ++ comparison_lines id.now comparison.now) }
{
    push_revs_line(answer, b"missing", id, comparison.missing())?;
    push_contradiction(answer, id, comparison.contradiction())?;
    push_revs_line(answer, b"differs", id, comparison.differing())?;
    Ok(())
}

/// Prints the revision that has different parents in the source and the target, if such a revision exists.
fn push_contradiction(
    answer: &mut Vec<u8>,
    id: &str,
    contradiction: Option<Contradiction>,
) -> Result<(), AllocError>
    ensures { OnOk result (answer.new.items ≡ answer.old.items ++ contradicts_line id.now contradiction) }
{
    match contradiction {
        Some(contradiction) => push_revs_line(answer, b"contradicts", id, &[contradiction.child]),
        None => Ok(()),
    }
}
