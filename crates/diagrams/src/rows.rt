//! Computes the rows of a document's drawing. Each leaf of the document has one row, which shows the leaf's ancestry.
//! In a drawing, each row except the first may branch off an earlier row.

ghost use Rattle.std.specs.Prelude.{◌≡◌, ◌==◌, ◌<◌, IfOk, OnOk, get_or, length, map, vec_len};
ghost use Rattle.std.specs.List.{list_any};
ghost use Rattle.diagrams.specs.Rows.{AreRows, Closes, edges_above, edges_by_row, hangs_of};

use crate::ancestries::Ancestries;
use crate::document::Leaf;
use std::alloc::{AllocError, Global};

/// The row of a leaf in a drawing.
#[derive(Drop)]
pub struct Row {
    /// The generation at which this row branches off an earlier row, or 0 if this row does not branch off.
    pub hang: u32,
    /// The index of the row from which this row branches off, or 0 if this row does not branch off.
    pub parent: usize,
    /// The generation of the leaf's oldest known ancestor.
    pub first: u32,
    /// The generations at which a vertical edge leads from this row to the next row, in rising order. A vertical edge
    /// below a row comes from this row or an earlier row, and leads to a later row.
    pub below: Vec<u32>,
}

/// A row from which a later row may branch off.
#[derive(Drop)]
struct OpenRow {
    /// The generation at which the row branches off an earlier row, or 0 if the row does not branch off.
    hang: u32,
    /// The index of the row in the drawing.
    row: usize,
}

impl Row {
    /// Whether a vertical edge leads from this row to the next row at the given generation.
    pub fn is_open(&self, generation: u32) -> bool
        ensures { result ≡ list_any (λ g. g == generation) self.now.below.items }
    {
        self.below.contains(&generation)
    }
}

/// Computes one row of a document's drawing for each leaf. The leaves must be sorted by `Document::sort`.
pub fn rows_of(
    alloc: Global,
    ancestries: &Ancestries,
    leaves: &[Leaf],
) -> Result<Vec<Row>, AllocError>
    ensures count { IfOk result (λ rows. vec_len rows ≡ length leaves.now) }
    ensures rows { IfOk result (λ rows. AreRows ancestries.now leaves.now rows.items) }
{
    let mut rows = Vec::new(alloc);
    let mut open = Vec::new(alloc);
    for i in 0..leaves.len() {
        let hang = hang_of(ancestries, leaves, i);
        let parent = parent_of(&mut open, hang);
        open.push(OpenRow { hang, row: i })?;
        rows.push(Row {
            hang,
            parent,
            first: leaves[i].oldest,
            below: Vec::new(alloc),
        })?;
    }
    set_edges(alloc, &mut rows)?;
    Ok(rows)
}

/// Returns the generation at which a leaf's row branches off an earlier row, or 0 if the row does not branch off.
fn hang_of(ancestries: &Ancestries, leaves: &[Leaf], i: usize) -> u32
    requires { i < length leaves.now }
    ensures { result ≡ get_or (hangs_of ancestries.now leaves.now) i 0 }
{
    if i == 0 {
        return 0;
    }
    ancestries.last_shared(leaves[i - 1].parent, leaves[i].parent)
}

/// Returns the index of the last row that shows a revision of generation `hang`. Returns 0 if `hang` is 0. The call
/// removes the rows after the returned row from `open`, because no later row branches off a removed row.
fn parent_of(open: &mut Vec<OpenRow>, hang: u32) -> usize
    ensures { Closes hang open.old.items open.new.items result }
{
    let mut count = open.len();
    while count > 0 && open[count - 1].hang >= hang {
        count -= 1;
    }
    open.truncate(count);
    match open.last() {
        Some(row) => row.row,
        None => 0,
    }
}

/// Computes the field `below` of each row, which has the generations of the vertical edges from the row to the next
/// row.
fn set_edges(alloc: Global, rows: &mut Vec<Row>) -> Result<(), AllocError>
    ensures hangs { map (λ r. r.hang) rows.new.items ≡ map (λ r. r.hang) rows.old.items }
    ensures parents { map (λ r. r.parent) rows.new.items ≡ map (λ r. r.parent) rows.old.items }
    ensures firsts { map (λ r. r.first) rows.new.items ≡ map (λ r. r.first) rows.old.items }
    ensures below { OnOk result
        (map (λ r. r.below.items) rows.new.items ≡ edges_by_row (map (λ r. r.hang) rows.old.items)) }
{
    let mut edges: Vec<u32> = Vec::new(alloc);
    let mut i = rows.len();
    while i > 0 {
        i -= 1;
        let hang = rows[i].hang;
        rows[i].below = Vec::from_slice(alloc, edges.as_slice())?;
        move_up(&mut edges, hang)?;
    }
    Ok(())
}

/// Updates the list `edges` for the preceding row. The list has the value of `Row::below` for row i, and gets the value
/// for row i - 1. The argument `hang` is the value of `Row::hang` for row i.
fn move_up(edges: &mut Vec<u32>, hang: u32) -> Result<(), AllocError>
    ensures { OnOk result (edges.new.items ≡ edges_above edges.old.items hang) }
{
    edges.retain(|generation| *generation < hang);
    if hang > 0 {
        edges.push(hang)?;
    }
    Ok(())
}
