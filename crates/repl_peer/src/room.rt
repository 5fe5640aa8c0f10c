//! Reserves capacity for lists that usually have one item.
ghost use Rattle.std.specs.Prelude.{◌≡◌, ◌<◌, OnOk};
ghost use Rattle.std.specs.Vec.{vec_len, vec_capacity};

use std::alloc::AllocError;

/// Reserves space for one more item in a list. For an empty list, the call reserves space for exactly one item. For a
/// nonempty list, the call does the same as `Vec::reserve(1)`. An error changes nothing.
pub(crate) fn room_for_one<T>(list: &mut Vec<T>) -> Result<(), AllocError>
    ensures items { list.new.items ≡ list.old.items }
    ensures room { OnOk result (vec_len list.new < vec_capacity list.new) }
{
    if list.is_empty() {
        list.reserve_exact(1)
    } else {
        list.reserve(1)
    }
}
