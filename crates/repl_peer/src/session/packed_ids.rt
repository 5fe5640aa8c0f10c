//! The ids of a done window's rows, stored consecutively.
ghost use Rattle.std.specs.Prelude.{◌≡◌, ◌+◌, IfOk, length, map};
ghost use Rattle.std.specs.List.{flat_map, list_any};
ghost use Rattle.std.specs.Str.{bytes_eq};
ghost use Rattle.repl_peer.specs.session.PackedIds.{AreEnds, ends_from, ids_from};

use couch_base::Row;
use doc_json::DocId;
use std::alloc::{AllocError, Global};
use std::marker::Model;

/// The maximum number of bytes of all ids of a list. The index at which an id ends has 32 bits.
const MOST_BYTES: usize = u32::MAX as usize;

/// A list of document ids. The list `text` has the bytes of all ids, one id after the other. The list `ends` has the
/// index in `text` at which each id ends.
#[derive(Drop)]
pub(crate) struct PackedIds {
    text: Vec<u8>,
    ends: Vec<u32>,
}

impl Model for PackedIds {
    ghost use Rattle.std.specs.Prelude.{List, length};
    ghost use Rattle.couch_base.specs.Database.{Id};

    ghost Value = { List Id };

    ghost use Rattle.repl_peer.specs.session.PackedIds.{AreEnds, ids_from};

    ghost view = { λ p. ids_from 0 p.ends.items p.text.items };

    ghost invariant = { λ p. AreEnds 0 p.ends.items (length p.text.items) };
}

impl PackedIds {
    /// Copies the ids of rows. Fails if an allocation fails, or if the ids have more than `MOST_BYTES` bytes together.
    pub(crate) fn of(alloc: Global, rows: &[Row]) -> Result<PackedIds, AllocError>
        ensures of { IfOk result (λ ids. ids ≡ map (λ row. row.id) rows.now) }
    {
        let (ends, len) = ends_of(alloc, rows)?;
        let text = text_of(alloc, rows, len as usize)?;
        Ok(PackedIds { text, ends })
    }

    /// Whether the list has a given id.
    pub(crate) fn has(&self, id: &DocId) -> bool
        ensures { result ≡ list_any (λ own. bytes_eq own id.now) self.now }
    {
        has_text(&self.text, &self.ends, id.text().as_bytes())
    }
}

/// Returns the index at which each id ends if the ids of the rows are stored consecutively, and the number of
/// bytes of all ids. Fails if an allocation fails, or if the ids have more than `MOST_BYTES` bytes together.
fn ends_of(alloc: Global, rows: &[Row]) -> Result<(Vec<u32>, u32), AllocError>
    ensures ends { IfOk result (λ r. r.0.items ≡ ends_from 0 (map (λ row. row.id) rows.now)) }
    ensures len { IfOk result (λ r. r.1 ≡ length (flat_map (λ row. row.id) rows.now)) }
{
    let mut ends = Vec::with_capacity(alloc, rows.len())?;
    let mut end = 0;
    for row in rows {
        end = end_after(end, row.id())?;
        ends.push(end)?;
    }
    Ok((ends, end))
}

/// Returns the index at which an id ends that begins at a given index. Fails if the id ends after `MOST_BYTES`.
fn end_after(start: u32, id: &DocId) -> Result<u32, AllocError>
    ensures end { IfOk result (λ end. end ≡ start + length id.now) }
{
    let len = id.text().len();
    if len > MOST_BYTES - start as usize {
        return Err(AllocError);
    }
    Ok(start + len as u32)
}

/// Returns the bytes of the rows' ids, consecutively. The caller gives the number of bytes of all ids.
fn text_of(alloc: Global, rows: &[Row], len: usize) -> Result<Vec<u8>, AllocError>
    requires len { len ≡ length (flat_map (λ row. row.id) rows.now) }
    ensures text { IfOk result (λ text. text.items ≡ flat_map (λ row. row.id) rows.now) }
{
    let mut text = Vec::with_capacity(alloc, len)?;
    for row in rows {
        text.extend_from_slice(row.id().text().as_bytes())?;
    }
    Ok(text)
}

/// Whether one of the ids that `text` stores consecutively is a given id.
fn has_text(text: &[u8], ends: &[u32], id: &[u8]) -> bool
    requires { AreEnds 0 ends.now (length text.now) }
    ensures { result ≡ list_any (λ own. bytes_eq own id.now) (ids_from 0 ends.now text.now) }
{
    let mut start = 0;
    for end in ends {
        let end = *end as usize;
        if &text[start..end] == id {
            return true;
        }
        start = end;
    }
    false
}
