//! Tasks that read an input line by line.
ghost use Rattle.std.specs.Prelude.{◌≡◌, ℕ, List, [], OnOk};

use std::alloc::AllocError;

/// A task that reads the lines of an input in order, and appends text.
pub trait LineTask {
    // The relation that defines the effect of a line: the task's new state, and the text that the task appends. The
    // relation has four arguments: the state before the line, the line without its line end, the appended text, and the
    // state after the line.
    ghost steps: { Self → List ℕ → List ℕ → Self → Type 0 };

    // The relation that defines the effect of the input's end: the task's new state, and the text that the task
    // appends. The relation has four arguments: the state before the input's end, the bytes after the last line end,
    // the appended text, and the state after the input's end.
    ghost ends: { Self → List ℕ → List ℕ → Self → Type 0 };

    /// Reads a line without its line end, and appends the task's output for the line to `text`.
    ///
    /// # Errors
    ///
    /// Returns an error if an allocation failed, or if a count is at its maximum.
    fn line(&mut self, line: &[u8], text: &mut Vec<u8>) -> Result<(), AllocError>
        requires empty { text.old.items ≡ [] }
        ensures { OnOk result (steps self.old line.now text.new.items self.new) };

    /// Reads the bytes `rest` after the last line end, and appends to `text` the task's output for the input's end.
    ///
    /// # Errors
    ///
    /// Returns an error if an allocation failed, or if a count is at its maximum.
    fn end(&mut self, rest: &[u8], text: &mut Vec<u8>) -> Result<(), AllocError>
        requires empty { text.old.items ≡ [] }
        ensures { OnOk result (ends self.old rest.now text.new.items self.new) };
}
