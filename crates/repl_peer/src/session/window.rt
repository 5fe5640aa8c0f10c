//! How a session stores its windows in memory: complete, or with only the ids of their rows.
ghost use Rattle.std.specs.Prelude.{◌≡◌, ◌<◌, true, length, is_some, IfOk, IfSome};
ghost use Rattle.std.specs.List.{list_any, list_all};
ghost use Rattle.std.specs.Str.{bytes_eq};
ghost use Rattle.repl_peer.specs.session.Settling.{has_row};
ghost use Rattle.repl_peer.specs.session.Windows.{windows_of, IsThinner};

use crate::session::ghost_rows::GhostRows;
use crate::session::packed_ids::PackedIds;
use crate::session::ready_window::ReadyWindow;
use crate::session::rows::all_have_rows;
use couch_base::{Row, Window};
use doc_json::{Doc, DocId};
use std::alloc::{AllocError, Global};
use std::marker::Model;

// ---- done windows

/// A done window. Of a done window's rows, a `DoneWindow` stores only the ids, because later calls use only the ids.
/// The rows are a ghost value: the rows exist for contracts only, and not at run time.
#[derive(Drop)]
pub(crate) struct DoneWindow {
    life: u64,
    lo: u64,
    hi: u64,
    ids: PackedIds,
    rows: GhostRows,
}

impl Model for DoneWindow {
    ghost use Rattle.std.specs.Prelude.{◌≡◌, map};
    ghost use Rattle.couch_base.specs.Feed.{WindowValue};

    ghost Value = { WindowValue };

    ghost view = { λ w. record { life = w.life; lo = w.lo; hi = w.hi; rows = w.rows.rows } };

    ghost invariant = { λ w. w.ids ≡ map (λ row. row.id) w.rows.rows };
}

impl DoneWindow {
    /// Copies a window with only the ids of the window's rows. Fails if `PackedIds` cannot store the ids.
    pub(crate) fn of(alloc: Global, window: &Window) -> Result<DoneWindow, AllocError>
        ensures of { IfOk result (λ w. w ≡ window.now) }
    {
        let ids = PackedIds::of(alloc, window.rows())?;
        Ok(DoneWindow {
            life: window.life(),
            lo: window.lo(),
            hi: window.hi(),
            ids,
            rows: GhostRows::of(window),
        })
    }

    /// Whether each document has a row in the window.
    fn has_rows_of(&self, docs: &[Doc]) -> bool
        ensures { result ≡ list_all (has_row self.now) docs.now }
    {
        for doc in docs {
            if !self.has_row_of(doc.id()) {
                return false;
            }
        }
        true
    }

    /// Whether the window has a row with a given id.
    fn has_row_of(&self, id: &DocId) -> bool
        ensures { result ≡ list_any (λ row. bytes_eq row.id id.now) self.now.rows }
    {
        self.ids.has(id)
    }
}

// ---- stored windows

/// A window of a session. Of the rows of a done window, a session may store only the ids.
#[derive(Drop)]
pub struct StoredWindow {
    kept: Kept,
}

/// The two forms in which a window is stored.
#[derive(Drop)]
pub(crate) enum Kept {
    /// The complete window.
    Whole(ReadyWindow),
    /// A done window with only the ids of its rows.
    Done(DoneWindow),
}

impl Model for StoredWindow {
    ghost use Rattle.couch_base.specs.Feed.{IsWindow};
    ghost use Rattle.repl_peer.specs.session.Windows.{StoredWindowValue};
    ghost use Rattle.repl_peer.specs.session.Kept.{kept_value};

    ghost Value = { StoredWindowValue };

    ghost view = { λ s. kept_value s.kept };

    ghost invariant = { λ s. IsWindow (kept_value s.kept).window };
}

impl StoredWindow {
    ghost use Rattle.couch_base.specs.Feed.{IsWindow};

    /// Stores a complete window.
    pub(crate) fn whole(ready: ReadyWindow) -> StoredWindow
        requires { IsWindow ready }
        ensures { result ≡ record { window = ready; whole = true } }
    {
        StoredWindow {
            kept: Kept::Whole(ready),
        }
    }

    /// Returns the window's life: the life of the database that produced the window (a number that changes when the
    /// database is restored).
    pub fn life(&self) -> u64
        ensures { result ≡ self.now.window.life }
    {
        match &self.kept {
            Kept::Whole(ready) => ready.window().life(),
            Kept::Done(window) => window.life,
        }
    }

    /// Returns the sequence above which the window begins.
    pub fn lo(&self) -> u64
        ensures value { result ≡ self.now.window.lo }
        ensures window { IsWindow self.now.window }
    {
        match &self.kept {
            Kept::Whole(ready) => ready.window().lo(),
            Kept::Done(window) => window.lo,
        }
    }

    /// Returns the sequence at which the window ends.
    pub fn hi(&self) -> u64
        ensures value { result ≡ self.now.window.hi }
        ensures window { IsWindow self.now.window }
    {
        match &self.kept {
            Kept::Whole(ready) => ready.window().hi(),
            Kept::Done(window) => window.hi,
        }
    }

    /// Returns the rows by rising sequence. Returns `None` if the session stores only the ids of the rows.
    pub fn rows(&self) -> Option<&[Row]>
        ensures whole { is_some result ≡ self.now.whole }
        ensures rows { IfSome result (λ r. r.now ≡ self.now.window.rows) }
        ensures window { IsWindow self.now.window }
    {
        match &self.kept {
            Kept::Whole(ready) => Some(ready.window().rows()),
            Kept::Done(_) => None,
        }
    }

    /// Whether each document has a row in the window.
    pub(crate) fn has_rows_of(&self, docs: &[Doc]) -> bool
        ensures { result ≡ list_all (has_row self.now.window) docs.now }
    {
        match &self.kept {
            Kept::Whole(ready) => all_have_rows(ready.window().rows(), docs),
            Kept::Done(window) => window.has_rows_of(docs),
        }
    }

    /// Drops the window's rows, and keeps the ids of the rows. The call copies the ids to a `DoneWindow`, unless
    /// `ReadyWindow::prepare` has already built the `DoneWindow`. If the `DoneWindow` cannot be built, the window keeps
    /// its rows.
    pub(crate) fn let_leaves_go(&mut self, alloc: Global)
        ensures { self.new.window ≡ self.old.window }
    {
        if let Kept::Whole(ready) = &mut self.kept {
            if let Some(done) = ready.take_done(alloc) {
                self.kept = Kept::Done(done);
            }
        }
    }
}

/// Drops the rows of one window, which has the index `place` in the list `windows`, and keeps the ids of the rows. If
/// the ids cannot be copied, the window keeps its rows.
pub(crate) fn let_leaves_go_at(windows: &mut Vec<StoredWindow>, place: usize)
    requires within { place < length windows.old.items }
    ensures windows { windows_of windows.new.items ≡ windows_of windows.old.items }
    ensures thinner { IsThinner place windows.old.items windows.new.items }
{
    let alloc = *windows.allocator();
    windows[place].let_leaves_go(alloc);
}
