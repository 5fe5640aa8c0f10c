//! Draws a document in SVG.

ghost use Rattle.std.specs.Prelude.{◌≡◌, ◌+◌, ◌-◌, ◌*◌, ◌^◌, ◌∷◌, [], None, OnOk, length, map, max, min, string_bytes};
ghost use Rattle.diagrams.specs.declared.form.Form.TheVariants.{Svg};
ghost use Rattle.diagrams.specs.Ink.{Draws, leaf_sign, signs_of, title};

use crate::ancestries::Ancestries;
use crate::axis::{Cell, axis_of, folded, start_of};
use crate::document::{Document, Leaf};
use crate::form::Form;
use crate::markup::Markup;
use crate::rows::{Row, rows_of};
use crate::sheet::{leaf_node, mark, number, short_rev, title, whole_rev};
use rev_core::Rev;
use std::alloc::{AllocError, Global};

/// The distance between columns, the distance between rows, and the coordinates of the centers of the first column and
/// the first row.
const COLUMN: u64 = 110;

const ROW: u64 = 44;

const LEFT: u64 = 60;

const TOP: u64 = 52;

/// The width and height of a drawn document or of a picture.
#[derive(Clone, Copy, Debug)]
pub struct Extent {
    pub width: u64,
    pub height: u64,
}

impl Extent {
    /// Returns the combined size of two items that are drawn one below the other.
    pub fn with_below(self, below: Extent) -> Extent
        ensures width { result.width ≡ max self.width below.width }
        ensures height { result.height ≡ min (self.height + below.height) (2 ^ 64 - 1) }
    {
        Extent {
            width: self.width.max(below.width),
            height: self.height.saturating_add(below.height),
        }
    }
}

/// Returns the width that the picture reserves for a text.
pub fn width_of(text: &str) -> u64
    ensures { result ≡ min (length text.now) (2 ^ 32) * 9 }
{
    (text.len() as u64).min(1 << 32) * 9
}

/// Returns the horizontal coordinate of a column's center.
fn x_of(place: usize) -> u64
    ensures { result ≡ min place (2 ^ 32) * COLUMN + LEFT }
{
    (place as u64).min(1 << 32) * COLUMN + LEFT
}

/// Returns the vertical coordinate of a row's center.
fn y_of(place: usize) -> u64
    ensures { result ≡ min place (2 ^ 32) * ROW + TOP }
{
    (place as u64).min(1 << 32) * ROW + TOP
}

/// Draws a document at a given height, and returns the size of the drawing. The document's leaves must be sorted.
pub fn draw_document(
    alloc: Global,
    out: &mut Vec<u8>,
    height: u64,
    document: &Document,
) -> Result<Extent, AllocError>
    ensures { OnOk result (Draws out.old.items out.new.items (signs_of Svg None (string_bytes document.now.id) document.now.leaves.items)) }
{
    let leaves = document.leaves.as_slice();
    let ancestries = &document.ancestries;
    let rows = rows_of(alloc, ancestries, leaves)?;
    let cells = axis_of(alloc, ancestries, leaves, rows.as_slice())?;
    draw_head(out, height, document)?;
    draw_rows(out, cells.as_slice(), ancestries, leaves, rows.as_slice())?;
    mark(out, Markup::GroupEnd)?;
    Ok(Extent {
        width: x_of(cells.len()).max(width_of(document.id.as_str())),
        height: y_of(leaves.len()),
    })
}

/// Appends the start of a document's SVG markup, which has the document's vertical position and the document id.
fn draw_head(out: &mut Vec<u8>, height: u64, document: &Document) -> Result<(), AllocError>
    ensures { OnOk result (Draws out.old.items out.new.items (title Svg (string_bytes document.now.id) ∷ [])) }
{
    mark(out, Markup::Group)?;
    number(out, height)?;
    mark(out, Markup::Title)?;
    title(out, Form::Svg, document.id.as_str())?;
    mark(out, Markup::TitleEnd)
}

/// Draws the rows.
fn draw_rows(
    out: &mut Vec<u8>,
    cells: &[Cell],
    ancestries: &Ancestries,
    leaves: &[Leaf],
    rows: &[Row],
) -> Result<(), AllocError>
    requires { length rows.now ≡ length leaves.now }
    ensures { OnOk result (Draws out.old.items out.new.items (map (leaf_sign Svg) leaves.now)) }
{
    for i in 0..leaves.len() {
        draw_row(out, cells, ancestries, &leaves[i], &rows[i], i)?;
    }
    Ok(())
}

/// Draws a leaf's row: the columns before the leaf's column, and the leaf.
fn draw_row(
    out: &mut Vec<u8>,
    cells: &[Cell],
    ancestries: &Ancestries,
    leaf: &Leaf,
    row: &Row,
    place: usize,
) -> Result<(), AllocError>
    ensures { OnOk result (Draws out.old.items out.new.items (leaf_sign Svg leaf.now ∷ [])) }
{
    draw_cells(out, cells, ancestries, leaf, row, place)?;
    draw_leaf(out, leaf, column_of(cells, leaf), place)
}

/// Returns the column in which a leaf is drawn.
fn column_of(cells: &[Cell], leaf: &Leaf) -> usize {
    for i in 0..cells.len() {
        if cells[i].high >= leaf.generation() {
            return i;
        }
    }
    cells.len()
}

/// Appends the SVG markup of a leaf's row, from the row's first column to the edge that ends at the leaf.
fn draw_cells(
    out: &mut Vec<u8>,
    cells: &[Cell],
    ancestries: &Ancestries,
    leaf: &Leaf,
    row: &Row,
    place: usize,
) -> Result<(), AllocError>
    ensures { OnOk result (Draws out.old.items out.new.items []) }
{
    for i in 0..cells.len() {
        draw_column(out, &cells[i], ancestries, leaf, row, i, place)?;
    }
    Ok(())
}

/// Draws one column of a leaf's row in an SVG picture. The call draws the edge from the left, and then an ancestor or
/// the number of hidden generations. In the leaf's own column, the call draws only the edge to the leaf. If a column is
/// left of the row's start or right of the leaf, the call draws nothing.
fn draw_column(
    out: &mut Vec<u8>,
    cell: &Cell,
    ancestries: &Ancestries,
    leaf: &Leaf,
    row: &Row,
    i: usize,
    place: usize,
) -> Result<(), AllocError>
    ensures { OnOk result (Draws out.old.items out.new.items []) }
{
    if cell.low < start_of(leaf, row) || cell.high > leaf.generation() {
        return Ok(());
    }
    draw_edge(out, cell.low, row, i, place)?;
    if cell.high < leaf.generation() {
        return draw_cell(out, cell, ancestries, leaf, i, place);
    }
    Ok(())
}

/// Draws the edge from the previous column to the column that begins at generation `low`. The edge ends in the row at
/// index `place`. If this row branches off an earlier row in the previous column, the edge starts in the earlier row.
/// Draws nothing in the picture's first column, and in the first column of a row that does not branch off.
fn draw_edge(
    out: &mut Vec<u8>,
    low: u32,
    row: &Row,
    i: usize,
    place: usize,
) -> Result<(), AllocError>
    ensures { OnOk result (Draws out.old.items out.new.items []) }
{
    if i == 0 || row.hang == 0 && row.first == low {
        return Ok(());
    }
    let from = if u64::from(row.hang) + 1 == u64::from(low) {
        row.parent
    } else {
        place
    };
    draw_curve(out, x_of(i - 1), y_of(from), x_of(i), y_of(place))
}

/// Draws a curve between two points.
fn draw_curve(out: &mut Vec<u8>, x: u64, y: u64, to_x: u64, to_y: u64) -> Result<(), AllocError>
    ensures { OnOk result (Draws out.old.items out.new.items []) }
{
    mark(out, Markup::Path)?;
    draw_point(out, x.saturating_add(10), y)?;
    mark(out, Markup::Curve)?;
    draw_point(out, x.saturating_add(50), y)?;
    mark(out, Markup::Space)?;
    draw_point(out, to_x.saturating_sub(60), to_y)?;
    mark(out, Markup::Space)?;
    draw_point(out, to_x.saturating_sub(10), to_y)?;
    mark(out, Markup::PathEnd)
}

/// Draws a point.
fn draw_point(out: &mut Vec<u8>, x: u64, y: u64) -> Result<(), AllocError>
    ensures { OnOk result (Draws out.old.items out.new.items []) }
{
    number(out, x)?;
    mark(out, Markup::Comma)?;
    number(out, y)
}

/// Draws the contents of one of the columns before the leaf's column.
fn draw_cell(
    out: &mut Vec<u8>,
    cell: &Cell,
    ancestries: &Ancestries,
    leaf: &Leaf,
    i: usize,
    place: usize,
) -> Result<(), AllocError>
    ensures { OnOk result (Draws out.old.items out.new.items []) }
{
    mark(out, Markup::Node)?;
    draw_point(out, x_of(i), y_of(place))?;
    if cell.low < cell.high {
        return draw_fold(out, folded(cell.low, cell.high));
    }
    match ancestries.ancestor(leaf.parent, cell.low) {
        Some(rev) => draw_ancestor(out, rev),
        None => mark(out, Markup::NodeNone),
    }
}

/// Draws the number of generations that one column of an SVG picture represents, for example `12 more`.
fn draw_fold(out: &mut Vec<u8>, count: u64) -> Result<(), AllocError>
    ensures { OnOk result (Draws out.old.items out.new.items []) }
{
    mark(out, Markup::Folded)?;
    number(out, count)?;
    mark(out, Markup::More)?;
    mark(out, Markup::NodeEnd)
}

/// Appends the SVG markup of an ancestor. The caller has already appended the markup for the ancestor's coordinates.
fn draw_ancestor(out: &mut Vec<u8>, rev: &Rev) -> Result<(), AllocError>
    ensures { OnOk result (Draws out.old.items out.new.items []) }
{
    mark(out, Markup::NodeTitle)?;
    whole_rev(out, rev)?;
    mark(out, Markup::Ancestor)?;
    short_rev(out, rev)?;
    mark(out, Markup::NodeEnd)
}

/// Draws a leaf with its label.
fn draw_leaf(out: &mut Vec<u8>, leaf: &Leaf, i: usize, place: usize) -> Result<(), AllocError>
    ensures { OnOk result (Draws out.old.items out.new.items (leaf_sign Svg leaf.now ∷ [])) }
{
    mark(out, Markup::Node)?;
    draw_point(out, x_of(i), y_of(place))?;
    mark(out, Markup::NodeTitle)?;
    leaf_node(out, &leaf.rev, leaf.wins, leaf.live)
}
