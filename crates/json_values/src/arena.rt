//! The memory arena of a reader, which holds the arrays and objects of a line.
ghost use Rattle.std.specs.Prelude.{◌≡◌, IsTrue, IfOk};
ghost use Rattle.serde_json.specs.Data.{array};
ghost use Rattle.json_values.specs.LineView.{line_view, line_items};

use crate::capacities::LONG_TEXT;
use crate::line::{LineValue, is_same_text};
use crate::tokens::Tokens;
use bumpalo::Bump;
use std::alloc::{AllocError, Global};

/// Stores an array with the given items in the arena, and returns the array.
#[inline(always)]
pub(crate) fn array<'a>(
    values: &'a Bump,
    reader: &Tokens<'a>,
    items: &[LineValue<'a>],
) -> Result<LineValue<'a>, AllocError>
    ensures { IfOk result (λ value. line_view value ≡ array (line_items items.now)) }
{
    if reader.is_long() {
        return Ok(LineValue::Array(shared(values, reader, items)?));
    }
    Ok(LineValue::Array(values.try_alloc_slice_copy(items)?))
}

/// Returns a slice of the arena that has the given items. If all items are strings and equal the items of the last
/// stored array, the call returns the slice of the stored array. If the items differ, or if an item is not a string,
/// the call copies the items into the arena.
#[inline(never)]
fn shared<'a>(
    values: &'a Bump,
    reader: &Tokens<'a>,
    items: &[LineValue<'a>],
) -> Result<&'a [LineValue<'a>], AllocError>
    ensures { IfOk result (λ kept. line_items kept.now ≡ line_items items.now) }
{
    let last = reader.last_array();
    if are_same_texts(last, items) {
        return Ok(last);
    }
    let kept: &'a [LineValue<'a>] = values.try_alloc_slice_copy(items)?;
    reader.note_array(kept);
    Ok(kept)
}

/// Whether two arrays have the same items, and all items are strings.
fn are_same_texts(a: &[LineValue<'_>], b: &[LineValue<'_>]) -> bool
    ensures { IsTrue result → line_items a.now ≡ line_items b.now }
{
    if a.len() != b.len() {
        return false;
    }
    let mut i = 0;
    'items: while i < a.len() {
        if !is_same_string(&a[i], &b[i]) {
            return false;
        }
        i += 1;
    }
    true
}

/// Whether two values are the same string.
fn is_same_string(a: &LineValue<'_>, b: &LineValue<'_>) -> bool
    ensures { IsTrue result → line_view a.now ≡ line_view b.now }
{
    let LineValue::String(x) = a else {
        return false;
    };
    let LineValue::String(y) = b else {
        return false;
    };
    is_same_text(*x, *y)
}

/// Empties the arena. Frees the memory of a large arena, and keeps the memory of a small arena for the next line.
pub(crate) fn clear(alloc: Global, values: &mut Bump) {
    if values.allocated_bytes() > LONG_TEXT {
        *values = Bump::new(alloc);
        return;
    }
    let _cleared = values.reset();
}
