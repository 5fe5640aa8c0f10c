//! Draws a document as text.

ghost use Rattle.std.specs.Prelude.{◌≡◌, ◌∷◌, [], OnOk, length, map, option_map, string_bytes};
ghost use Rattle.std.specs.List.{flat_map};
ghost use Rattle.diagrams.specs.declared.form.Form.TheVariants.{Text};
ghost use Rattle.diagrams.specs.Ink.{Draws, edit_of, edits_of, leaf_sign, signs_of};

use crate::ancestries::Ancestries;
use crate::axis::{Cell, axis_of, folded, folded_len, start_of};
use crate::document::{Document, Leaf};
use crate::form::Form;
use crate::markup::Markup;
use crate::rows::{Row, rows_of};
use crate::sheet::{blanks, edit_line, leaf_row, mark, number, short_len, short_rev, title};
use rev_core::Rev;
use std::alloc::{AllocError, Global};

/// Draws a document. The document's leaves must be sorted for drawing.
pub fn draw_document(
    alloc: Global,
    out: &mut Vec<u8>,
    db: Option<&str>,
    document: &Document,
) -> Result<(), AllocError>
    ensures { OnOk result (Draws out.old.items out.new.items
        (signs_of Text (option_map (λ s. s.now) db.entry) (string_bytes document.now.id) document.now.leaves.items)) }
{
    let leaves = document.leaves.as_slice();
    let ancestries = &document.ancestries;
    let rows = rows_of(alloc, ancestries, leaves)?;
    let cells = axis_of(alloc, ancestries, leaves, rows.as_slice())?;
    title(out, Form::Text, document.id.as_str())?;
    mark(out, Markup::LineEnd)?;
    draw_rows(out, cells.as_slice(), ancestries, leaves, rows.as_slice())?;
    draw_edits(out, db, document.id.as_str(), leaves)?;
    mark(out, Markup::LineEnd)
}

/// Draws the rows.
fn draw_rows(
    out: &mut Vec<u8>,
    cells: &[Cell],
    ancestries: &Ancestries,
    leaves: &[Leaf],
    rows: &[Row],
) -> Result<(), AllocError>
    requires { length rows.now ≡ length leaves.now }
    ensures { OnOk result (Draws out.old.items out.new.items (map (leaf_sign Text) leaves.now)) }
{
    for i in 0..leaves.len() {
        draw_row(out, cells, ancestries, &leaves[i], &rows[i])?;
    }
    Ok(())
}

/// Draws the commands that resolve the document's conflict, if the caller named the database.
fn draw_edits(
    out: &mut Vec<u8>,
    db: Option<&str>,
    id: &str,
    leaves: &[Leaf],
) -> Result<(), AllocError>
    ensures { OnOk result (Draws out.old.items out.new.items
        (edits_of (option_map (λ s. s.now) db.entry) id.now leaves.now)) }
{
    let Some(db) = db else {
        return Ok(());
    };
    draw_edits_of(out, db, id, leaves)
}

/// Draws the commands that resolve the document's conflict.
fn draw_edits_of(out: &mut Vec<u8>, db: &str, id: &str, leaves: &[Leaf]) -> Result<(), AllocError>
    ensures { OnOk result (Draws out.old.items out.new.items (flat_map (edit_of db.now id.now) leaves.now)) }
{
    for i in 0..leaves.len() {
        draw_edit(out, db, id, &leaves[i])?;
    }
    Ok(())
}

/// Draws a leaf's row: the columns before the leaf's column, and the leaf.
fn draw_row(
    out: &mut Vec<u8>,
    cells: &[Cell],
    ancestries: &Ancestries,
    leaf: &Leaf,
    row: &Row,
) -> Result<(), AllocError>
    ensures { OnOk result (Draws out.old.items out.new.items (leaf_sign Text leaf.now ∷ [])) }
{
    mark(out, Markup::Indent)?;
    draw_cells(out, cells, ancestries, leaf, row)?;
    draw_leaf(out, leaf)
}

/// Appends the text of a leaf's row, from the row's first column to the edge that ends at the leaf.
fn draw_cells(
    out: &mut Vec<u8>,
    cells: &[Cell],
    ancestries: &Ancestries,
    leaf: &Leaf,
    row: &Row,
) -> Result<(), AllocError>
    ensures { OnOk result (Draws out.old.items out.new.items []) }
{
    for i in 0..cells.len() {
        draw_column(out, &cells[i], ancestries, leaf, row, i == 0)?;
    }
    Ok(())
}

/// Draws one column of a leaf's row in a text picture. The column begins with an edge or blanks, and then has an
/// ancestor, a number of generations or blanks. In the leaf's own column, the call draws only the edge to the leaf. If
/// a column is right of the leaf, the call draws nothing.
fn draw_column(
    out: &mut Vec<u8>,
    cell: &Cell,
    ancestries: &Ancestries,
    leaf: &Leaf,
    row: &Row,
    first: bool,
) -> Result<(), AllocError>
    ensures { OnOk result (Draws out.old.items out.new.items []) }
{
    if cell.high > leaf.generation() {
        return Ok(());
    }
    draw_edge(out, cell, leaf, row, first)?;
    if cell.high < leaf.generation() {
        return draw_cell(out, cell, ancestries, leaf, row);
    }
    Ok(())
}

/// Appends the edge or the blanks to the left of a column, unless the column is the first.
fn draw_edge(
    out: &mut Vec<u8>,
    cell: &Cell,
    leaf: &Leaf,
    row: &Row,
    first: bool,
) -> Result<(), AllocError>
    ensures { OnOk result (Draws out.old.items out.new.items []) }
{
    if first {
        return Ok(());
    }
    mark(out, edge_of(leaf, row, cell.low))
}

/// Returns the characters to the left of the column that begins at generation `low`: an edge, a branch or blanks.
fn edge_of(leaf: &Leaf, row: &Row, low: u32) -> Markup {
    let before = low.saturating_sub(1);
    let open = row.is_open(before);
    if before >= start_of(leaf, row) {
        return if open { Markup::Fork } else { Markup::Step };
    }
    if before == row.hang && before > 0 {
        return if open { Markup::Branch } else { Markup::Corner };
    }
    if open { Markup::Bar } else { Markup::Blank }
}

/// Draws the contents of one of the columns before the leaf's column.
fn draw_cell(
    out: &mut Vec<u8>,
    cell: &Cell,
    ancestries: &Ancestries,
    leaf: &Leaf,
    row: &Row,
) -> Result<(), AllocError>
    ensures { OnOk result (Draws out.old.items out.new.items []) }
{
    if cell.high < start_of(leaf, row) {
        return blanks(out, cell.width);
    }
    if cell.low < cell.high {
        return draw_fold(out, folded(cell.low, cell.high), cell.width);
    }
    match ancestries.ancestor(leaf.parent, cell.low) {
        Some(rev) => draw_ancestor(out, rev, cell.width),
        None => blanks(out, cell.width),
    }
}

/// Draws the number of generations that one column of a text picture represents, for example `12 more`.
fn draw_fold(out: &mut Vec<u8>, count: u64, width: usize) -> Result<(), AllocError>
    ensures { OnOk result (Draws out.old.items out.new.items []) }
{
    number(out, count)?;
    mark(out, Markup::More)?;
    blanks(out, width.saturating_sub(folded_len(count)))
}

/// Draws an ancestor in a column.
fn draw_ancestor(out: &mut Vec<u8>, rev: &Rev, width: usize) -> Result<(), AllocError>
    ensures { OnOk result (Draws out.old.items out.new.items []) }
{
    short_rev(out, rev)?;
    blanks(out, width.saturating_sub(short_len(rev)))
}

/// Draws a leaf with its label.
fn draw_leaf(out: &mut Vec<u8>, leaf: &Leaf) -> Result<(), AllocError>
    ensures { OnOk result (Draws out.old.items out.new.items (leaf_sign Text leaf.now ∷ [])) }
{
    leaf_row(out, &leaf.rev, leaf.wins, leaf.live)
}

/// Appends the script command that would delete a leaf, if the leaf is live and not the winner.
fn draw_edit(out: &mut Vec<u8>, db: &str, id: &str, leaf: &Leaf) -> Result<(), AllocError>
    ensures { OnOk result (Draws out.old.items out.new.items (edit_of db.now id.now leaf.now)) }
{
    if leaf.wins || !leaf.live {
        return Ok(());
    }
    edit_line(out, db, id, &leaf.rev)
}
