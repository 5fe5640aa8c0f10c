//! Defines the gate, a callback that workers call at each stage of a window, and that may stop the run.
ghost use Rattle.pool_workers.specs.declared.gate.Place.{Place};

use std::sync::Wait;

/// A stage that a run has reached with a window, and the number of this window. The windows of a run are numbered from
/// 0.
#[derive(Clone, Copy, Debug)]
pub enum Place {
    /// A fetcher took the window.
    Took(u64),
    /// A fetcher found out which leaves of the window are missing at the target.
    Asked(u64),
    /// A fetcher counted the requested documents at the source.
    Fetched(u64),
    /// A writer settled the window's parcel.
    Settled(u64),
    /// A writer recorded the session at the target. The second number of `Recorded` is the recorded sequence.
    Recorded(u64, u64),
}

/// Whether a worker continues.
#[derive(Clone, Copy, Debug)]
pub enum Turn {
    /// The worker continues.
    Go,
    /// The worker stops, and takes no further step.
    Stop,
}

/// A callback that decides, at each stage that a worker reaches with a window, whether the worker continues. Workers
/// call a `Gate` without a lock, possibly from several threads. A `Gate` may block.
pub trait Gate {
    ghost use Rattle.pool_workers.specs.Gates.{Stops};

    /// The stages of windows at which a `Gate` may stop a worker.
    ghost may_stop: { Self → Place → Type 0 };

    /// Decides whether a worker continues after it has reached the stage `place`. Returns `Stop` if the worker must
    /// stop, and otherwise `Go`.
    fn at<R: Wait>(&self, rt: &R, place: Place) -> Turn
        ensures { Stops result (may_stop self.now place) };

    /// Whether `at` may make a worker wait until another worker reaches a stage of a window. If `may_block` returns
    /// `false`, one thread may alternate between the work of two workers.
    fn may_block(&self) -> bool {
        true
    }
}

/// An implementation of `Gate` that never stops a worker.
#[derive(Clone, Copy, Debug)]
pub struct Open;

impl Gate for Open {
    ghost may_stop = { λ _ _. ⊥ };

    fn at<R: Wait>(&self, _rt: &R, _place: Place) -> Turn {
        Turn::Go
    }

    fn may_block(&self) -> bool {
        false
    }
}
