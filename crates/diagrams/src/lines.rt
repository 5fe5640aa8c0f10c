//! Draws the findings of `compare`, and the lines of numbers that `compare`, `info` or `replicate` prints.

ghost use Rattle.std.specs.Prelude.{◌≡◌, ◌≤◌, ◌+◌, ◌*◌, ◌^◌, ◌++◌, ◌∷◌, [], OnOk, get_or, map, max, min, string_bytes, string_len, vec_len};
ghost use Rattle.diagrams.specs.declared.form.Form.TheVariants.{Svg, Text};
ghost use Rattle.diagrams.specs.Ink.{Draws, bar, bars_of, caption, count, counts_of, found, heading, listed, ratio, share, signs_of_found, signs_of_row, table_text};

use crate::form::Form;
use crate::markup::Markup;
use crate::sheet::{mark, number, push_short, put_number, put_text};
use crate::svg::{Extent, width_of};
use output_parser::{Column, Finding, Found, Row, Table};
use rev_core::Rev;
use std::alloc::AllocError;

/// Draws a line of `compare` about a document. In an SVG picture, the call draws the line at a given height.
pub fn draw_found(
    out: &mut Vec<u8>,
    form: Form,
    height: u64,
    what: &Found,
) -> Result<(), AllocError>
    ensures { OnOk result (Draws out.old.items out.new.items
        (signs_of_found form what.now.finding (string_bytes what.now.id) what.now.revs.items)) }
{
    begin(out, form, height, Markup::Line)?;
    put_found(out, form, what.finding, what.id.as_str())?;
    draw_listed(out, what.revs.as_slice())?;
    end_line(out, form)
}

/// Draws revisions.
fn draw_listed(out: &mut Vec<u8>, revs: &[Rev]) -> Result<(), AllocError>
    ensures { OnOk result (Draws out.old.items out.new.items (map listed revs.now)) }
{
    for i in 0..revs.len() {
        put_listed(out, &revs[i])?;
    }
    Ok(())
}

/// Draws a line of numbers: the totals of `compare`, the numbers of `info`, or the numbers of a session. In an SVG
/// picture, the call draws the line at a given height.
pub fn draw_numbers(out: &mut Vec<u8>, form: Form, height: u64, row: &Row) -> Result<(), AllocError>
    ensures { OnOk result (Draws out.old.items out.new.items
        (signs_of_row form row.now.table (string_bytes row.now.name) row.now.numbers.items)) }
{
    let numbers = row.numbers.as_slice();
    begin(out, form, height, Markup::Title)?;
    put_heading(out, form, row.table, row.name.as_str())?;
    between(out, form)?;
    draw_counts(out, row.table.columns(), numbers)?;
    behind_numbers(out, form)?;
    draw_bar(out, form, row.table, numbers)?;
    end(out, form)
}

/// Draws each number with the caption of the number's column.
fn draw_counts(out: &mut Vec<u8>, columns: &[Column], numbers: &[u64]) -> Result<(), AllocError>
    ensures { OnOk result (Draws out.old.items out.new.items (counts_of columns.now numbers.now)) }
{
    for i in 0..columns.len() {
        if i >= numbers.len() {
            return Ok(());
        }
        put_count(out, columns[i], number_at(numbers, i))?;
    }
    Ok(())
}

/// Appends a bar to a picture, after the totals of `compare` or the numbers of a session. The numbers that `info`
/// prints are drawn without a bar.
fn draw_bar(out: &mut Vec<u8>, form: Form, table: Table, numbers: &[u64]) -> Result<(), AllocError>
    ensures { OnOk result (Draws out.old.items out.new.items (bars_of form table numbers.now)) }
{
    match table {
        Table::Compared => {
            let leaves = number_at(numbers, 1);
            put_bar(
                out,
                form,
                leaves.saturating_sub(number_at(numbers, 2)),
                leaves,
            )
        }
        Table::Info => Ok(()),
        Table::Session => put_bar(out, form, number_at(numbers, 5), number_at(numbers, 4)),
    }
}

/// Returns the number at an index of a list, or 0 if the list has fewer numbers.
fn number_at(numbers: &[u64], place: usize) -> u64
    ensures { result ≡ get_or numbers.now place 0 }
{
    if place < numbers.len() {
        numbers[place]
    } else {
        0
    }
}

// ---- positions

/// Returns the size of the drawing for a line of `compare`.
pub fn extent_of_found(found: &Found) -> Extent
    ensures width { result.width ≡ min (string_len found.now.id) (2 ^ 32) * 9 + (min (vec_len found.now.revs) (2 ^ 32) * 140 + 60) }
    ensures height { result.height ≡ 24 }
{
    Extent {
        width: width_of(found.id.as_str()).saturating_add(
            (found.revs.len() as u64).min(1 << 32) * 140 + 60,
        ),
        height: 24,
    }
}

/// Returns the size of the drawing for a line of numbers.
pub fn extent_of_row(row: &Row) -> Extent
    ensures width { result.width ≡ max (min (string_len row.now.name) (2 ^ 32) * 9) 900 }
    ensures info { row.now.table ≡ Table.Info → result.height ≡ 54 }
    ensures other { (row.now.table ≡ Table.Info → ⊥) → result.height ≡ 84 }
{
    Extent {
        width: width_of(row.name.as_str()).max(900),
        height: if row.table == Table::Info { 54 } else { 84 },
    }
}

/// Writes the start of an item in an SVG picture, at the given height.
pub fn begin(out: &mut Vec<u8>, form: Form, height: u64, behind: Markup) -> Result<(), AllocError>
    ensures { OnOk result (Draws out.old.items out.new.items []) }
{
    if form == Form::Text {
        return Ok(());
    }
    mark(out, Markup::Group)?;
    number(out, height)?;
    mark(out, behind)
}

/// Appends the markup between the heading and the numbers of a line of numbers.
fn between(out: &mut Vec<u8>, form: Form) -> Result<(), AllocError>
    ensures { OnOk result (Draws out.old.items out.new.items []) }
{
    match form {
        Form::Text => mark(out, Markup::LineEnd),
        Form::Svg => mark(out, Markup::Numbers),
    }
}

/// Appends the markup after the last number of a line of numbers.
fn behind_numbers(out: &mut Vec<u8>, form: Form) -> Result<(), AllocError>
    ensures { OnOk result (Draws out.old.items out.new.items []) }
{
    match form {
        Form::Text => mark(out, Markup::LineEnd),
        Form::Svg => mark(out, Markup::TitleEnd),
    }
}

/// Appends the end of a line of numbers.
fn end(out: &mut Vec<u8>, form: Form) -> Result<(), AllocError>
    ensures { OnOk result (Draws out.old.items out.new.items []) }
{
    match form {
        Form::Text => mark(out, Markup::LineEnd),
        Form::Svg => mark(out, Markup::GroupEnd),
    }
}

/// Appends the end of a line in the picture. The line shows a finding of `compare`, the id of a log, or a session of a
/// log.
pub fn end_line(out: &mut Vec<u8>, form: Form) -> Result<(), AllocError>
    ensures { OnOk result (Draws out.old.items out.new.items []) }
{
    if form == Form::Text {
        return mark(out, Markup::LineEnd);
    }
    mark(out, Markup::TitleEnd)?;
    mark(out, Markup::GroupEnd)
}

// ---- contents

/// Draws a finding of `compare` and the document id.
fn put_found(out: &mut Vec<u8>, form: Form, finding: Finding, id: &str) -> Result<(), AllocError>
    ensures { OnOk result (Draws out.old.items out.new.items (found form finding id.now ∷ [])) }
{
    out.extend_from_slice(finding.text().as_bytes())?;
    put_text(out, form, id)
}

/// Draws a revision that a finding of `compare` lists.
fn put_listed(out: &mut Vec<u8>, rev: &Rev) -> Result<(), AllocError>
    ensures { OnOk result (Draws out.old.items out.new.items (listed rev.now ∷ [])) }
{
    out.extend_from_slice(b" ")?;
    push_short(out, rev)
}

/// Appends a heading to a picture. The heading has the kind of the table, such as `database`, and then the text `name`,
/// such as the database's name.
pub fn put_heading(
    out: &mut Vec<u8>,
    form: Form,
    table: Table,
    name: &str,
) -> Result<(), AllocError>
    ensures { OnOk result (Draws out.old.items out.new.items (heading form table name.now ∷ [])) }
{
    out.extend_from_slice(table_text(table).as_bytes())?;
    put_text(out, form, name)
}

/// Returns the name that a picture prints for the kind of a line of numbers.
fn table_text(table: Table) -> &'static str
    ensures { result.now ≡ table_text table }
{
    match table {
        Table::Compared => "compare",
        Table::Info => "database ",
        Table::Session => "session ",
    }
}

/// Draws a number with the caption of the number's column.
pub fn put_count(out: &mut Vec<u8>, column: Column, number: u64) -> Result<(), AllocError>
    ensures { OnOk result (Draws out.old.items out.new.items (count column number ∷ [])) }
{
    out.extend_from_slice(b"  ")?;
    out.extend_from_slice(caption(column).as_bytes())?;
    out.extend_from_slice(b" ")?;
    put_number(out, number)
}

/// Returns the caption of a column of numbers.
fn caption(column: Column) -> &'static str
    ensures { result.now ≡ caption column }
{
    match column {
        Column::ComparedDocuments => "documents",
        Column::ComparedLeaves => "leaves",
        Column::ComparedMissing => "missing leaves",
        Column::Contradicting => "contradicting documents",
        Column::Differing => "differing leaves",
        Column::Seq => "seq",
        Column::Life => "life",
        Column::Documents => "documents",
        Column::Deleted => "deleted",
        Column::Leaves => "leaves",
        Column::Conflicts => "conflicts",
        Column::Revisions => "revisions",
        Column::Sessions => "sessions",
        Column::From => "from",
        Column::To => "to",
        Column::Checked => "checked",
        Column::Found => "found",
        Column::Read => "read",
        Column::Written => "written",
        Column::Failed => "failed",
    }
}

/// Draws a progress bar for a part of a total.
fn put_bar(out: &mut Vec<u8>, form: Form, part: u64, whole: u64) -> Result<(), AllocError>
    ensures { OnOk result (Draws out.old.items out.new.items (bar form part whole ∷ [])) }
{
    match form {
        Form::Text => put_text_bar(out, part, whole),
        Form::Svg => put_svg_bar(out, part, whole),
    }
}

/// Draws a progress bar of 40 characters, for a text picture.
fn put_text_bar(out: &mut Vec<u8>, part: u64, whole: u64) -> Result<(), AllocError>
    ensures { OnOk result (Draws out.old.items out.new.items (bar Text part whole ∷ [])) }
{
    let length = (share(part, whole) / 10) as usize;
    let full: &[u8] = b"########################################";
    let empty: &[u8] = b"........................................";
    out.extend_from_slice(b"  [")?;
    out.extend_from_slice(&full[..length])?;
    out.extend_from_slice(&empty[length..])?;
    out.extend_from_slice(b"] ")?;
    put_ratio(out, part, whole)?;
    out.extend_from_slice(b"\n")
}

/// Draws a progress bar with a width of 400, for an SVG picture.
fn put_svg_bar(out: &mut Vec<u8>, part: u64, whole: u64) -> Result<(), AllocError>
    ensures { OnOk result (Draws out.old.items out.new.items (bar Svg part whole ∷ [])) }
{
    out.extend_from_slice(
        b"<rect x=\"20\" y=\"54\" width=\"400\" height=\"10\" class=\"d\"/><rect x=\"20\" y=\"54\" width=\"",
    )?;
    put_number(out, share(part, whole))?;
    out.extend_from_slice(b"\" height=\"10\" class=\"w\"/><text x=\"432\" y=\"63\">")?;
    put_ratio(out, part, whole)?;
    out.extend_from_slice(b"</text>\n")
}

/// Appends a part and its total as text, for example `3 of 5`.
fn put_ratio(out: &mut Vec<u8>, part: u64, whole: u64) -> Result<(), AllocError>
    ensures { OnOk result (out.new.items ≡ out.old.items ++ ratio part whole) }
{
    put_number(out, part)?;
    out.extend_from_slice(b" of ")?;
    put_number(out, whole)
}

/// Returns the filled length of a bar of length 400 that shows a part of a total.
pub fn share(part: u64, whole: u64) -> u64
    ensures share { result ≡ share part whole }
    ensures most { result ≤ 400 }
{
    if whole == 0 {
        return 400;
    }
    let parts = u128::from(part) * 400 / u128::from(whole);
    if parts >= 400 { 400 } else { parts as u64 }
}
