//! Computes the columns of a diagram of a revision tree. Each leaf of the revision tree has a row in the diagram. A
//! generation is *marked* if a leaf's row begins or ends at this generation, or branches off from it. Each marked
//! generation has its own column in the diagram. All generations between two successive marked generations share one
//! column.

ghost use Rattle.std.specs.Prelude.{◌≡◌, ◌+◌, ◌++◌, ◌-◌, ℕ, List, IfOk, OnOk, decimal, length, map};
ghost use Rattle.diagrams.specs.Ancestries.{ancestry_of};
ghost use Rattle.diagrams.specs.Columns.{AreMarked, between, column_of, marks, marks_of, spans, start_of, width_in, width_of};

use crate::ancestries::Ancestries;
use crate::document::Leaf;
use crate::rows::Row;
use crate::sheet::{digits, short_len};
use std::alloc::{AllocError, Global};

/// A column of a diagram, for the generations from `low` to `high`.
#[derive(Clone, Copy, Debug)]
pub struct Cell {
    pub low: u32,
    pub high: u32,
    /// The number of characters of the column's widest text.
    pub width: usize,
}

/// Computes the columns of a diagram from the leaves and their rows.
pub fn axis_of(
    alloc: Global,
    ancestries: &Ancestries,
    leaves: &[Leaf],
    rows: &[Row],
) -> Result<Vec<Cell>, AllocError>
    ensures { IfOk result (λ cells. (marked : List ℕ) × AreMarked leaves.now rows.now marked
        × (cells.items ≡ map (column_of ancestries.now leaves.now) (spans marked))) }
{
    let marked = marked_of(alloc, leaves, rows)?;
    cells_of(alloc, ancestries, leaves, marked.as_slice())
}

/// Returns the marked generations, each once and in rising order.
fn marked_of(alloc: Global, leaves: &[Leaf], rows: &[Row]) -> Result<Vec<u32>, AllocError>
    ensures { IfOk result (λ marked. AreMarked leaves.now rows.now marked.items) }
{
    let mut marked = marks(alloc, leaves, rows)?;
    marked.sort()?;
    marked.dedup();
    Ok(marked)
}

/// Returns the generations that are marked because of each row, row by row.
fn marks(alloc: Global, leaves: &[Leaf], rows: &[Row]) -> Result<Vec<u32>, AllocError>
    ensures { IfOk result (λ all. all.items ≡ marks leaves.now rows.now) }
{
    let mut all = Vec::new(alloc);
    for i in 0..leaves.len().min(rows.len()) {
        push_marks(&mut all, &leaves[i], &rows[i])?;
    }
    Ok(all)
}

/// Appends the generations at which a leaf's row ends, begins and branches off.
fn push_marks(all: &mut Vec<u32>, leaf: &Leaf, row: &Row) -> Result<(), AllocError>
    ensures { OnOk result (all.new.items ≡ all.old.items ++ marks_of (leaf.now, row.now)) }
{
    all.push(leaf.generation())?;
    all.push(start_of(leaf, row))?;
    if row.hang > 0 {
        all.push(row.hang)?;
    }
    Ok(())
}

/// Returns the generation of the oldest revision in a leaf's row of the diagram.
pub fn start_of(leaf: &Leaf, row: &Row) -> u32
    ensures { result ≡ start_of leaf.now row.now }
{
    if row.hang == 0 || row.hang == u32::MAX {
        return leaf.oldest;
    }
    row.hang + 1
}

/// Builds one column for each marked generation, and one column for each gap between successive marked generations.
fn cells_of(
    alloc: Global,
    ancestries: &Ancestries,
    leaves: &[Leaf],
    marked: &[u32],
) -> Result<Vec<Cell>, AllocError>
    ensures { IfOk result (λ cells. cells.items ≡ map (column_of ancestries.now leaves.now) (spans marked.now)) }
{
    let mut cells = Vec::new(alloc);
    for i in 0..marked.len() {
        if i > 0 {
            push_gap(&mut cells, ancestries, leaves, marked[i - 1], marked[i])?;
        }
        cells.push(cell_of(ancestries, leaves, marked[i], marked[i]))?;
    }
    Ok(cells)
}

/// Appends the column for the generations between two marked generations, if there are any.
fn push_gap(
    cells: &mut Vec<Cell>,
    ancestries: &Ancestries,
    leaves: &[Leaf],
    last: u32,
    next: u32,
) -> Result<(), AllocError>
    ensures { OnOk result
        (cells.new.items ≡ cells.old.items ++ map (column_of ancestries.now leaves.now) (between last next)) }
{
    if next.saturating_sub(last) > 1 {
        cells.push(cell_of(ancestries, leaves, last + 1, next - 1))?;
    }
    Ok(())
}

/// Builds the column for the generations from `low` to `high`.
fn cell_of(ancestries: &Ancestries, leaves: &[Leaf], low: u32, high: u32) -> Cell
    ensures { result ≡ column_of ancestries.now leaves.now (low, high) }
{
    Cell {
        low,
        high,
        width: width_of(ancestries, leaves, low, high),
    }
}

/// Returns the number of characters of the widest text in a column.
fn width_of(ancestries: &Ancestries, leaves: &[Leaf], low: u32, high: u32) -> usize
    ensures { result ≡ width_of ancestries.now leaves.now low high }
{
    let mut width = 0;
    for i in 0..leaves.len() {
        width = width.max(width_in(ancestries, &leaves[i], low, high));
    }
    width
}

/// Returns the number of characters that a column shows of a leaf's ancestry.
fn width_in(ancestries: &Ancestries, leaf: &Leaf, low: u32, high: u32) -> usize
    ensures { result ≡ width_in low high (ancestry_of ancestries.now leaf.now.parent) }
{
    if low == high {
        return match ancestries.ancestor(leaf.parent, low) {
            Some(rev) => short_len(rev),
            None => 0,
        };
    }
    match ancestries.ancestor(leaf.parent, high) {
        Some(_) => folded_len(folded(low, high)),
        None => 0,
    }
}

/// Returns the number of generations from `low` to `high`, which share one column of a diagram.
pub fn folded(low: u32, high: u32) -> u64
    ensures { result ≡ high - low + 1 }
{
    u64::from(high).saturating_sub(u64::from(low)) + 1
}

/// Returns the length of a column's text for `count` generations. For 12 generations, the text is `12 more`.
pub fn folded_len(count: u64) -> usize
    ensures { result ≡ length (decimal count) + 5 }
{
    digits(count) + 5
}
