//! Windows that are prepared before they are stored.
ghost use Rattle.std.specs.Prelude.{◌≡◌, IfSome};

use crate::session::window::DoneWindow;
use couch_base::Window;
use std::alloc::Global;
use std::marker::Model;

/// A window, optionally with a prebuilt copy (`DoneWindow`) that has only the ids of the window's rows. After the
/// window is done, the session stores only the `DoneWindow`, unless the `DoneWindow` cannot be built. A caller can
/// build the `DoneWindow` with `prepare` before the caller locks the peer.
pub struct ReadyWindow {
    window: Window,
    done: Option<DoneWindow>,
}

// `ReadyWindow` implements `Drop` by hand. With `#[derive(Drop)]`, each crate that owns a `ReadyWindow` would have to
// prove the derived code again (docs/DECISIONS.md, "Letting values go").
impl Drop for ReadyWindow {
    fn drop(self) {
        let ReadyWindow { window: _, done: _ } = self;
    }
}

impl Model for ReadyWindow {
    ghost use Rattle.std.specs.Prelude.{◌≡◌, IfSome};
    ghost use Rattle.couch_base.specs.Feed.{WindowValue};

    ghost Value = { WindowValue };

    ghost view = { λ r. r.window };

    ghost invariant = { λ r. IfSome r.done (λ done. done ≡ r.window) };
}

impl ReadyWindow {
    /// Creates a `ReadyWindow` of a window, without a prebuilt copy (`DoneWindow`).
    pub fn new(window: Window) -> ReadyWindow
        ensures { result ≡ window }
    {
        ReadyWindow { window, done: None }
    }

    /// Builds a copy of the window with only the ids of its rows (`DoneWindow`). If the `DoneWindow` cannot be built,
    /// the session tries again when the window is done.
    pub fn prepare(&mut self, alloc: Global)
        ensures { self.new ≡ self.old }
    {
        if let Ok(done) = DoneWindow::of(alloc, &self.window) {
            self.done = Some(done);
        }
    }

    /// Returns the window.
    pub fn window(&self) -> &Window
        ensures { result.now ≡ self.now }
    {
        &self.window
    }

    /// Returns a copy of the window with only the ids of its rows (`DoneWindow`). The call takes the `DoneWindow` that
    /// `prepare` has built, or builds a `DoneWindow` if `prepare` has built none. Returns `None` if the `DoneWindow`
    /// cannot be built.
    pub(crate) fn take_done(&mut self, alloc: Global) -> Option<DoneWindow>
        ensures same { self.new ≡ self.old }
        ensures done { IfSome result (λ done. done ≡ self.old) }
    {
        match self.done.take() {
            Some(done) => Some(done),
            None => DoneWindow::of(alloc, &self.window).ok(),
        }
    }
}
