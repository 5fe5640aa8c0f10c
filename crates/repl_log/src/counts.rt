//! The counts of leaves and documents of a session.

/// The numbers of leaves and documents that a session has processed.
#[derive(Clone, Copy, Debug, PartialEq, Eq)]
pub struct Counts {
    /// The number of leaves in the rows of the session's done windows.
    pub checked: u64,
    /// The number of revisions that the target requested in the session's done windows.
    pub found: u64,
    /// The number of documents that the session has read from the source.
    pub read: u64,
    /// The number of read documents that the target accepted.
    pub written: u64,
    /// The number of read documents that the target refused.
    pub failures: u64,
}

impl Counts {
    ghost use Rattle.std.specs.Prelude.{◌≡◌};
    ghost use Rattle.repl_log.specs.Counts.{no_counts};

    /// The counts of a new session, which are all zero.
    pub fn none() -> Counts
        ensures { result ≡ no_counts }
    {
        Counts {
            checked: 0,
            found: 0,
            read: 0,
            written: 0,
            failures: 0,
        }
    }
}
