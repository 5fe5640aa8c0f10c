//! Prints rows of a changes feed, page by page, until a piece of output is full (docs/PROFILE.md, "Changes feed" and
//! "Answers").
ghost use Rattle.std.specs.Prelude.{◌≡◌, ◌++◌, ◌∷◌, ◌<◌, ◌≤◌, [], List, length, true, false, OnOk, IfOk};
ghost use Rattle.std.specs.List.{flat_map};
ghost use Rattle.couch_base.specs.Feed.{RowValue};
ghost use Rattle.read_commands.specs.Walks.{rows_left};

use couch_base::{Database, MOST_SEQUENCE, Row};
use doc_json::Chosen;
use std::alloc::{AllocError, Global};

/// The minimum size in bytes of a piece of output, except for the last piece.
const PIECE: usize = 65_536;

/// A position in a changes feed.
#[derive(Drop)]
pub struct Walk {
    /// The sequence up to which rows of the feed have been printed or skipped.
    pub since: u64,
    /// The selected documents. If there is no selection, the feed has all documents.
    pub chosen: Option<Chosen>,
}

/// A trait of types that print and count the rows of a feed.
pub trait RowPrinter {
    ghost use Rattle.std.specs.Prelude.{ℕ, List};
    ghost use Rattle.couch_base.specs.Feed.{RowValue};

    /// The counts.
    type Tally;

    // The text that is printed for a row of the feed.
    ghost row_text: { Self → RowValue → List ℕ };

    // Whether a value of type `Tally` has the counts of a list of rows.
    ghost counts: { Self → Self.Tally → List RowValue → Type 0 } = { λ _ _ _. Unit {0} };

    /// Prints and counts a row of the feed.
    fn push_row(
        &self,
        alloc: Global,
        answer: &mut Vec<u8>,
        row: &Row,
        tally: &mut Self::Tally,
    ) -> Result<(), AllocError>
        ensures text { OnOk result (answer.new.items ≡ answer.old.items ++ row_text self.now row.now) }
        ensures counted { OnOk result ((earlier : List RowValue) → counts self.now tally.old earlier
            → counts self.now tally.new (earlier ++ row.now ∷ [])) };
}

/// Counts nothing.
#[derive(Drop)]
pub struct NoTally;

/// Appends the text of feed rows to `piece`, until `piece` has at least 65,536 bytes or all rows are printed. Each read
/// of the feed returns at most `limit` rows. If the result is true, `piece` has at least 65,536 bytes, and rows of the
/// feed may be left. If the result is false, no rows of the feed are left.
pub fn fill<P: RowPrinter>(
    alloc: Global,
    piece: &mut Vec<u8>,
    database: &Database,
    walk: &mut Walk,
    limit: u64,
    printer: &P,
    tally: &mut P::Tally,
) -> Result<bool, AllocError>
    requires { 0 < limit }
    ensures text { OnOk result (piece.new.items ++ flat_map (P.row_text printer.now) (rows_left database.now walk.new)
        ≡ piece.old.items ++ flat_map (P.row_text printer.now) (rows_left database.now walk.old)) }
    ensures chosen { OnOk result (walk.new.chosen ≡ walk.old.chosen) }
    ensures full { IfOk result (λ more. more ≡ true → 65536 ≤ length piece.new.items) }
    ensures end { IfOk result (λ more. more ≡ false → rows_left database.now walk.new ≡ []) }
    ensures counted { OnOk result ((earlier : List RowValue) → P.counts printer.now tally.old earlier
        → (later : List RowValue) × P.counts printer.now tally.new later
        × (later ++ rows_left database.now walk.new ≡ earlier ++ rows_left database.now walk.old)) }
{
    let goal = database.update_seq();
    while walk.since < goal {
        if piece.len() >= PIECE {
            return Ok(true);
        }
        step(alloc, piece, database, walk, limit, printer, tally)?;
    }
    Ok(false)
}

/// Prints all remaining rows of the feed. Each read of the feed returns at most `limit` rows.
pub fn print_feed<P: RowPrinter>(
    alloc: Global,
    answer: &mut Vec<u8>,
    database: &Database,
    mut walk: Walk,
    limit: u64,
    printer: &P,
    tally: &mut P::Tally,
) -> Result<(), AllocError>
    requires { 0 < limit }
    ensures { OnOk result (answer.new.items
        ≡ answer.old.items ++ flat_map (P.row_text printer.now) (rows_left database.now walk)) }
{
    let goal = database.update_seq();
    while walk.since < goal {
        step(alloc, answer, database, &mut walk, limit, printer, tally)?;
    }
    Ok(())
}

/// Prints one page of the feed. The page has at most `limit` rows.
fn step<P: RowPrinter>(
    alloc: Global,
    piece: &mut Vec<u8>,
    database: &Database,
    walk: &mut Walk,
    limit: u64,
    printer: &P,
    tally: &mut P::Tally,
) -> Result<(), AllocError>
    requires some { 0 < limit }
    requires left { walk.old.since < database.now.update_seq }
    ensures text { OnOk result (piece.new.items ++ flat_map (P.row_text printer.now) (rows_left database.now walk.new)
        ≡ piece.old.items ++ flat_map (P.row_text printer.now) (rows_left database.now walk.old)) }
    ensures chosen { OnOk result (walk.new.chosen ≡ walk.old.chosen) }
    ensures on { OnOk result (walk.old.since < walk.new.since) }
    ensures counted { OnOk result ((earlier : List RowValue) → P.counts printer.now tally.old earlier
        → (later : List RowValue) × P.counts printer.now tally.new later
        × (later ++ rows_left database.now walk.new ≡ earlier ++ rows_left database.now walk.old)) }
{
    let goal = database.update_seq();
    let chosen = walk.chosen.as_ref();
    let page = database.page_due(alloc, walk.since, goal, scan_limit(limit, chosen), chosen)?;
    push_rows(alloc, piece, page.rows(), printer, tally)?;
    walk.since = page.hi();
    Ok(())
}

/// Returns the maximum number of feed rows that the command scans to read one page. If at most `limit` documents are
/// selected, the read scans all remaining rows, because the page cannot have more than `limit` rows.
fn scan_limit(limit: u64, chosen: Option<&Chosen>) -> u64
    requires { 0 < limit }
    ensures { 0 < result }
{
    match chosen {
        Some(chosen) => {
            if chosen.ids().len() as u64 <= limit {
                MOST_SEQUENCE
            } else {
                limit
            }
        }
        None => limit,
    }
}

/// Prints rows.
fn push_rows<P: RowPrinter>(
    alloc: Global,
    piece: &mut Vec<u8>,
    rows: &[Row],
    printer: &P,
    tally: &mut P::Tally,
) -> Result<(), AllocError>
    ensures text { OnOk result (piece.new.items ≡ piece.old.items ++ flat_map (P.row_text printer.now) rows.now) }
    ensures counted { OnOk result ((earlier : List RowValue) → P.counts printer.now tally.old earlier
        → P.counts printer.now tally.new (earlier ++ rows.now)) }
{
    for row in rows {
        printer.push_row(alloc, piece, row, tally)?;
    }
    Ok(())
}
