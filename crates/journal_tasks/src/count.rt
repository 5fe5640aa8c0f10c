//! Counts the lines that a task has read.
ghost use Rattle.std.specs.Prelude.{◌≡◌, ◌+◌, OnOk, None, Some, is_none, not};
ghost use Rattle.std.specs.Option.{option_or};
ghost use Rattle.journal_tasks.specs.Counting.{counted_as, failed, failed_end};

use journal_core::added;
use std::alloc::AllocError;

/// The number of lines that a task has read, and the number of the first line that has a wrong form.
#[derive(Drop)]
pub(crate) struct Count {
    /// The number of lines that the task has read.
    pub(crate) lines: u64,
    /// The number (from 1) of the first input line that has a wrong form.
    pub(crate) wrong: Option<u64>,
}

impl Count {
    /// Returns the line count of a task that has read no line yet.
    pub(crate) fn new() -> Count
        ensures { result ≡ record { lines = 0; wrong = None } }
    {
        Count {
            lines: 0,
            wrong: None,
        }
    }

    /// Counts a line.
    ///
    /// # Errors
    ///
    /// Returns an error if the number of lines is already at its maximum.
    pub(crate) fn add(&mut self) -> Result<(), AllocError>
        ensures { OnOk result (self.new ≡ record { lines = self.old.lines + 1; wrong = self.old.wrong }) }
    {
        self.lines = added(self.lines, 1)?;
        Ok(())
    }

    /// Records that the last counted line has a wrong form.
    pub(crate) fn fail(&mut self)
        ensures { self.new ≡ record { lines = self.old.lines; wrong = failed self.old.wrong self.old.lines } }
    {
        if self.wrong.is_none() {
            self.wrong = Some(self.lines);
        }
    }

    /// If `right` is false, records that the last counted line has a wrong form.
    pub(crate) fn check(&mut self, right: bool)
        ensures { self.new ≡ counted_as (not right) self.old }
    {
        if !right {
            self.fail();
        }
    }

    /// If the input has bytes after its last line end, counts these bytes as a line that has a wrong form.
    ///
    /// # Errors
    ///
    /// Returns an error if there are bytes after the last line end, but the number of lines is already at its maximum.
    pub(crate) fn end(&mut self, rest: &[u8]) -> Result<(), AllocError>
        ensures { OnOk result (self.new.wrong ≡ failed_end self.old.wrong self.old.lines rest.now) }
    {
        if rest.is_empty() {
            return Ok(());
        }
        self.add()?;
        self.fail();
        Ok(())
    }

    /// Records that the input ends before its second part. If the input has bytes after its last line end, these bytes
    /// are the wrong line. If the input has no bytes after its last line end, the wrong line is the last counted line.
    ///
    /// # Errors
    ///
    /// Returns an error if there are bytes after the last line end, but the number of lines is already at its maximum.
    pub(crate) fn end_early(&mut self, rest: &[u8]) -> Result<(), AllocError>
        ensures { OnOk result (self.new.wrong
            ≡ option_or (failed_end self.old.wrong self.old.lines rest.now) (Some self.old.lines)) }
    {
        if !rest.is_empty() {
            self.add()?;
        }
        self.fail();
        Ok(())
    }

    /// Whether all lines read so far have a correct form.
    pub(crate) fn is_right(&self) -> bool
        ensures { result ≡ is_none self.now.wrong }
    {
        self.wrong.is_none()
    }
}
