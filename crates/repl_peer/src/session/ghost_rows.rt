//! The rows of a done window, as a value that exists for contracts only.
ghost use Rattle.std.specs.Prelude.{◌≡◌, List};
ghost use Rattle.std.specs.Borrow.{ftrue};
ghost use Rattle.std.specs.Coded.{coded_list};
ghost use Rattle.couch_base.specs.Feed.{RowValue, coded_row};

use couch_base::Window;
use std::marker::Model;

/// The rows of a window. Only contracts can read these rows, because a `GhostRows` has size zero at run time.
#[derive(Drop)]
pub(crate) struct GhostRows {
    pub(crate) ghost rows: { List RowValue } by { coded_list coded_row },
}

impl Model for GhostRows {
    ghost also_owns = { λ _. ftrue };
}

// If a type's `Model` defines `also_owns`, the compiler does not implement `Send` and `Sync` for the type
// automatically. `GhostRows` owns nothing.
unsafe impl Send for GhostRows {}

unsafe impl Sync for GhostRows {}

impl GhostRows {
    /// Creates the ghost value of a window's rows.
    #[inline(always)]
    pub(crate) fn of(_window: &Window) -> GhostRows
        ensures { result.rows ≡ _window.now.rows }
    {
        GhostRows {}
    }
}
