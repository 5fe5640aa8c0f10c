//! Copies lists element by element.
ghost use Rattle.std.specs.Prelude.{◌≡◌, IfOk, Ok};
ghost use Rattle.std.specs.Fn.{FnReturnsAt};

use std::alloc::{AllocError, Global};

/// Copies a list by calling the function `copy` for each element.
pub(crate) fn copied<T: Drop, F: Fn(&T) -> Result<T, AllocError>>(
    alloc: Global,
    items: &[T],
    copy: F,
) -> Result<Vec<T>, AllocError>
    requires callable { F.IsAlwaysCallable copy }
    requires same { (x y : T) → FnReturnsAt F.Fn copy x (Ok y) → y ≡ x }
    ensures { IfOk result (λ v. v.items ≡ items.now) }
{
    let mut copies = Vec::with_capacity(alloc, items.len())?;
    for item in items {
        let again = copy(item)?;
        copies.push(again)?;
    }
    Ok(copies)
}
