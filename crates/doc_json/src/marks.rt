//! A table of hashes of the document ids in a list. One lookup in a list's table of hashes rejects most document ids
//! that are not in the list.
ghost use Rattle.std.specs.Prelude.{◌≡◌, ◌<◌, ◌-◌, true, IfOk, length, drop};
ghost use Rattle.std.specs.Arc.{arc_slice_items};
ghost use Rattle.doc_json.specs.Marks.{AreMarks, is_marked, place_of};

use crate::doc_id::DocId;
use std::alloc::{AllocError, Global};
use std::sync::ArcSlice;

/// The number of entries that a table of hashes has for each document id.
const PLACES_EACH: usize = 8;

/// If a list has fewer than `FEWEST` ids, its table is as large as the table for `FEWEST` ids.
const FEWEST: usize = 8;

/// If a list has more than `MOST` ids, its table is as large as the table for `MOST` ids.
const MOST: usize = 1024;

/// The maximum number of entries of a table of hashes.
const PLACES: usize = MOST * PLACES_EACH;

/// Returns the last eight bytes of a string, or all bytes of a shorter string.
fn ending(bytes: &[u8]) -> &[u8]
    ensures { result.now ≡ drop (length bytes.now - 8) bytes.now }
{
    &bytes[bytes.len().saturating_sub(8)..]
}

/// Computes the table index of a document id from the id's last bytes.
fn place_of(id: &DocId, places: usize) -> usize
    requires { 0 < places }
    ensures within { result < places }
    ensures place { result ≡ place_of places id.now }
{
    let mut place = 0;
    for byte in ending(id.text().as_bytes()) {
        place = (place * 31 + usize::from(*byte)) % PLACES;
    }
    place % places
}

/// Returns the number of entries of the table of hashes for a list of `ids` document ids.
fn places_for(ids: usize) -> usize
    ensures { 0 < result }
{
    ids.max(FEWEST).min(MOST) * PLACES_EACH
}

/// Builds the table for a list of ids. The table entry of each id in the list is true.
pub(crate) fn mark(alloc: Global, ids: &[DocId]) -> Result<ArcSlice<bool>, AllocError>
    ensures marks { IfOk result (λ marks. AreMarks (arc_slice_items marks) ids.now) }
{
    let places = places_for(ids.len());
    let mut marks = Vec::from_elem(alloc, false, places)?;
    for id in ids {
        let place = place_of(id, places);
        marks[place] = true;
    }
    Ok(ArcSlice::from_vec(marks)?)
}

/// Whether the table entry at the index of a document id is true.
pub(crate) fn is_marked(marks: &[bool], id: &DocId) -> bool
    requires { 0 < length marks.now }
    ensures { result ≡ is_marked marks.now id.now }
{
    marks[place_of(id, marks.len())]
}
