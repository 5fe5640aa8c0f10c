//! A writer that keeps a history of the bytes that it accepted.
ghost use Rattle.std.specs.Prelude.{◌≡◌, [], Some};

use crate::passed::{Pass, Passed};
use std::io;
use std::io::Write;

/// Records the bytes that a `std` writer accepts. The wrapper keeps a history, so contracts can name all bytes that the
/// inner writer accepted.
#[derive(Drop)]
pub struct Recorder<W> {
    inner: W,
    accepted: Passed,
}

impl<W: Write> Recorder<W> {
    /// Wraps a writer. The writer has accepted no bytes through the wrapper yet.
    pub fn new(inner: W) -> Self
        ensures { ⟦<Recorder<W> as Write>⟧.contents result ≡ Some [] }
    {
        Recorder {
            inner,
            accepted: Passed::of(&Pass::Nothing),
        }
    }
}

impl<W: Write> Write for Recorder<W> {
    ghost contents = { λ s. Some s.accepted.bytes };

    fn write(&mut self, bytes: &[u8]) -> io::Result<usize> {
        let count = self.inner.write(bytes)?;
        let accepted = Passed::of(&Pass::More(&self.accepted, &bytes[..count]));
        self.accepted = accepted;
        Ok(count)
    }

    fn flush(&mut self) -> io::Result<()> {
        self.inner.flush()
    }
}
