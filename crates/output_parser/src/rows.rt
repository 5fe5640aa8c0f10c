//! Parsing lines of numbers.
ghost use Rattle.std.specs.Prelude.{◌≡◌, ℕ, List, IfOk, IfSome, IfNone, reverse, string_bytes};
ghost use Rattle.std.specs.Str.{IsUtf8};
ghost use Rattle.output_parser.specs.declared.told.Table.TheVariants as tables;
ghost use Rattle.output_parser.specs.Columns.{Ends, EndsIn, IsFront, IsRow, columns_of};

use crate::cuts::{behind, cut_named};
use crate::numbers::number;
use crate::told::{Column, Row, Table};
use std::alloc::{AllocError, Global};
use std::str;

/// Parses a line of numbers about a database, a comparison or a session. Returns `None` if the line is not a line of
/// numbers.
pub fn read_row(alloc: Global, line: &[u8], table: Table) -> Result<Option<Row>, AllocError>
    ensures some { IfOk result (λ o. IfSome o (λ r. (r.table ≡ table) × IsRow table line.now (string_bytes r.name) r.numbers.items)) }
    ensures none { IfOk result (λ o. IfNone o ((name numbers : List ℕ) → IsRow table line.now name numbers → ⊥)) }
{
    let Some((front, mut numbers)) = read_columns(alloc, line, columns_back(table))? else {
        return Ok(None);
    };
    let Some(name) = name_of(front, table) else {
        return Ok(None);
    };
    numbers.as_mut_slice().reverse();
    Ok(Some(Row {
        table,
        name: String::from_str(alloc, name)?,
        numbers,
    }))
}

/// Returns the columns of the given kind of line, the last column first.
fn columns_back(table: Table) -> &'static [Column]
    ensures { result.now ≡ reverse (columns_of table) }
{
    match table {
        Table::Compared => &[
            Column::Differing,
            Column::Contradicting,
            Column::ComparedMissing,
            Column::ComparedLeaves,
            Column::ComparedDocuments,
        ],
        Table::Info => &[
            Column::Sessions,
            Column::Revisions,
            Column::Conflicts,
            Column::Leaves,
            Column::Deleted,
            Column::Documents,
            Column::Life,
            Column::Seq,
        ],
        Table::Session => &[
            Column::Failed,
            Column::Written,
            Column::Read,
            Column::Found,
            Column::Checked,
            Column::To,
            Column::From,
        ],
    }
}

/// Parses columns at the end of a text, the last column first, and returns the text before the columns. Returns `None`
/// if the text does not end with the columns in the list `columns`, each with a number.
fn read_columns<'a>(
    alloc: Global,
    text: &'a [u8],
    columns: &[Column],
) -> Result<Option<(&'a [u8], Vec<u64>)>, AllocError>
    ensures some { IfOk result (λ o. IfSome o (λ x. Ends columns.now x.1.items x.0.now text.now)) }
    ensures none { IfOk result (λ o. IfNone o ((front numbers : List ℕ) → Ends columns.now numbers front text.now → ⊥)) }
{
    let mut numbers = Vec::new(alloc);
    let mut rest = text;
    for i in 0..columns.len() {
        let Some((front, number)) = cut_column(rest, columns[i]) else {
            return Ok(None);
        };
        numbers.push(number)?;
        rest = front;
    }
    Ok(Some((rest, numbers)))
}

/// Parses a column at the end of a text, and returns the text before the column. Returns `None` if the text does not
/// end with the column `column` and a number.
fn cut_column(text: &[u8], column: Column) -> Option<(&[u8], u64)>
    ensures some { IfSome result (λ x. EndsIn column x.1 x.0.now text.now) }
    ensures none { IfNone result ((front : List ℕ) (n : ℕ) → EndsIn column n front text.now → ⊥) }
{
    let (front, word) = cut_named(text, column.text().as_bytes())?;
    match number(word) {
        Some(number) => Some((front, number)),
        None => None,
    }
}

/// Returns the name in `front`, the text before the columns of a line of numbers. Returns `None` if `front` cannot
/// begin a line of the kind `table`, or if the name in `front` is not UTF-8.
fn name_of(front: &[u8], table: Table) -> Option<&str>
    ensures some { IfSome result (λ name. IsFront table name.now front.now × IsUtf8 name.now) }
    ensures none { IfNone result ((name : List ℕ) → IsFront table name front.now → IsUtf8 name → ⊥) }
{
    let name = name_in(front, table)?;
    match str::from_utf8(name) {
        Ok(name) => Some(name),
        Err(_) => None,
    }
}

/// Returns the bytes of the name in `front`, the text before the columns of a line of numbers.
fn name_in(front: &[u8], table: Table) -> Option<&[u8]>
    ensures some { IfSome result (λ name. IsFront table name.now front.now) }
    ensures none { IfNone result ((name : List ℕ) → IsFront table name front.now → ⊥) }
{
    match table {
        Table::Compared => empty_name(front),
        Table::Info => database_name(front),
        Table::Session => behind(front, b"session "),
    }
}

/// Returns an empty name for a line of `compare`, or `None` if the line has text before its columns.
fn empty_name(front: &[u8]) -> Option<&[u8]>
    ensures some { IfSome result (λ name. IsFront tables.Compared name.now front.now) }
    ensures none { IfNone result ((name : List ℕ) → IsFront tables.Compared name front.now → ⊥) }
{
    if front.is_empty() { Some(front) } else { None }
}

/// Returns the database name DB in `info DB uuid U`, the beginning of a line of `info`.
fn database_name(front: &[u8]) -> Option<&[u8]>
    ensures some { IfSome result (λ name. IsFront tables.Info name.now front.now) }
    ensures none { IfNone result ((name : List ℕ) → IsFront tables.Info name front.now → ⊥) }
{
    let (name, _) = cut_named(front, b" uuid")?;
    behind(name, b"info ")
}
