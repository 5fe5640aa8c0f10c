//! Chooses the initial capacities of arrays and objects.
ghost use Rattle.std.specs.Prelude.{◌<◌};

use std::cell::Cell;

/// The table of capacities at the start of a text: eight lengths, each of which is 8. Most arrays and objects have at
/// most 8 elements.
const FIRST: u64 = 0x0808_0808_0808_0808;

/// A text of at least `LONG_TEXT` bytes is long. For a long text, the reader executes a few more instructions in order
/// to save memory.
pub(crate) const LONG_TEXT: usize = 128 * 1024;

/// The maximum initial capacity.
const MOST: usize = 16;

/// A table of the lengths of the arrays and objects that were read last, by kind and nesting depth. Depths with the
/// same remainder modulo 4 share one length in the table.
///
/// In a line of many small objects, objects of the same depth usually have the same number of members. An object
/// therefore usually wastes no memory if its initial capacity is the length of the last object of the same depth. No
/// contract states the initial capacity of an array or an object.
#[derive(Drop)]
pub(crate) struct Capacities {
    /// The eight lengths in a table of capacities, each stored in one byte of an integer.
    last: Cell<u64>,
}

impl Capacities {
    /// Creates a table of capacities in which the last length for each kind and nesting depth is 8.
    #[inline(always)]
    pub(crate) fn new() -> Capacities {
        Capacities {
            last: Cell::new(FIRST),
        }
    }

    /// Returns the initial capacity for an array or object.
    #[inline(always)]
    pub(crate) fn of(&self, is_object: bool, depth: usize) -> usize {
        ((self.last.get() >> shift_of(is_object, depth)) & 0xff) as usize
    }

    /// Records the length of an array or object that was read.
    #[inline(always)]
    pub(crate) fn note(&self, is_object: bool, depth: usize, len: usize) {
        let shift = shift_of(is_object, depth);
        let kept = self.last.get() & !(0xff << shift);
        self.last.set(kept | ((len.min(MOST) as u64) << shift));
    }
}

/// Returns the bit position of a length in the table. The length is for a kind of value (array or object) and a nesting
/// depth.
#[inline(always)]
fn shift_of(is_object: bool, depth: usize) -> u32
    ensures { result < 64 }
{
    (((depth & 3) as u32) * 2 + is_object as u32) * 8
}
