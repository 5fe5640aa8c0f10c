//! Observers of output.

use script_engine::{Nobody, Observe};

/// An observer of the result of each line (`Observe`), and of the start of the line's output.
pub trait ObserveAnswers: Observe {
    /// Receives the output of a line that succeeded, or the first piece of a long output. The interpreter calls
    /// `observe` for a line after `observe_answer`. Calling an observer does not affect the script's output.
    fn observe_answer(&mut self, answer: &[u8]);
}

impl ObserveAnswers for Nobody {
    #[inline]
    fn observe_answer(&mut self, _answer: &[u8]) {}
}
