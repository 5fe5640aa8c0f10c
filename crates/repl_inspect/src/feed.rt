//! Compares one document, or all documents of a source's feed, with a target.
ghost use Rattle.std.specs.Prelude.{◌≡◌, ◌++◌, List, IfOk, OnOk};
ghost use Rattle.std.specs.Option.{option_copied};
ghost use Rattle.couch_base.specs.Feed.{chosen_feed};
ghost use Rattle.repl_inspect.specs.Comparing.{ComparisonValue};
ghost use Rattle.repl_inspect.specs.Comparisons.{compared_at, comparisons};
ghost use Rattle.repl_inspect.specs.Totals.{total_of};

use crate::comparison::{Comparison, compare_trees};
use crate::total::Total;
use crate::trees::tree_or;
use couch_base::{Database, Row};
use doc_json::{Chosen, DocId};
use rev_tree::Tree;
use std::alloc::{AllocError, Global};

/// The maximum number of feed rows in one page that `compare_databases` reads.
const PAGE: u64 = 1000;

/// Compares the source's tree of a document with the target's tree of the document. The comparison ignores sessions and
/// logs. If one side lacks the document, the comparison treats this side's tree as empty.
pub fn compare(
    alloc: Global,
    source: &Database,
    target: &Database,
    id: &DocId,
) -> Result<Comparison, AllocError>
    ensures { IfOk result (λ c. c ≡ compared_at source.now target.now id.now) }
{
    let none = Tree::new(alloc);
    let ours = tree_or(source, id, &none);
    let theirs = tree_or(target, id, &none);
    compare_trees(alloc, ours, theirs)
}

/// Compares each document in a source's feed with the target's document, and returns the totals of the differences. If
/// `chosen` is given, the call compares only the selected documents.
pub(crate) fn compare_databases(
    alloc: Global,
    source: &Database,
    target: &Database,
    chosen: Option<&Chosen>,
) -> Result<Total, AllocError>
    ensures { IfOk result (λ t. t ≡ total_of (comparisons source.now target.now
        (chosen_feed (option_copied chosen.entry) source.now 0 source.now.update_seq))) }
{
    let goal = source.update_seq();
    let mut total = Total::none();
    let mut since = 0;
    while since < goal {
        let page = source.page_due(alloc, since, goal, PAGE, chosen)?;
        add_rows(alloc, source, target, page.rows(), &mut total)?;
        since = page.hi();
    }
    Ok(total)
}

/// Compares the documents of the given feed rows, and adds the comparisons to a total.
fn add_rows(
    alloc: Global,
    source: &Database,
    target: &Database,
    rows: &[Row],
    total: &mut Total,
) -> Result<(), AllocError>
    ensures { OnOk result ((earlier : List ComparisonValue) → total.old ≡ total_of earlier
        → total.new ≡ total_of (earlier ++ comparisons source.now target.now rows.now)) }
{
    for row in rows {
        let comparison = compare(alloc, source, target, row.id())?;
        total.add(&comparison);
    }
    Ok(())
}
