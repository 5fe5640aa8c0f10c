//! Logs.
use crate::entry::Entry;
use crate::fault::LogFault;
use indexmap::IndexMap;
use rev_tree::SessionId;
use std::alloc::{AllocError, Global};
use std::marker::Model;

/// The log of one replication, which has at most one entry of each session, newest first.
///
/// The entries are stored oldest first, in a hash table whose keys are the session ids. A call about one session
/// therefore does not scan all entries.
pub struct Log {
    entries: IndexMap<SessionId, Entry>,
}

// `Drop` is implemented by hand. The code of `#[derive(Drop)]` would be proved again in each crate that owns a `Log`
// (docs/DECISIONS.md, "Letting values go").
impl Drop for Log {
    fn drop(self) {
        let Log { entries: _ } = self;
    }
}

impl Model for Log {
    ghost use Rattle.std.specs.Prelude.{List};
    ghost use Rattle.repl_log.specs.Entry.{EntryValue};

    ghost Value = { List EntryValue };

    ghost use Rattle.repl_log.specs.Entry.{value_of};
    ghost use Rattle.repl_log.specs.Log.{IsLog};
    ghost use Rattle.repl_log.specs.Stored.{newest_first, IsKeyed};

    ghost view = { λ l. newest_first value_of l.entries.entries };

    ghost invariant = { λ l. IsLog (newest_first value_of l.entries.entries)
        × IsKeyed (λ e. e.session) l.entries.entries };
}

impl Log {
    ghost use Rattle.std.specs.Prelude.{◌≡◌, [], length, OnOk, OnErr, IfOk, IsTrue, slice_get};
    ghost use Rattle.std.specs.Option.{option_map};
    ghost use Rattle.repl_log.specs.Answers.{GivesUnlessMemory};
    ghost use Rattle.repl_log.specs.Entry.{value_of};
    ghost use Rattle.repl_log.specs.Log.{IsLog, holds, with_entry, put_answer, recorded_of, ChangesOnly};

    /// Creates an empty log.
    pub fn new(alloc: Global) -> Log
        ensures value { result ≡ [] }
        ensures log { IsLog result }
    {
        Log {
            entries: IndexMap::new(alloc),
        }
    }

    /// Stores an entry. The entry of a new session becomes the first entry of the log. The entry of an existing session
    /// replaces the old entry of this session.
    ///
    /// # Errors
    ///
    /// Checked in this order; an error changes nothing:
    ///
    /// - `Older`: the log already has an entry of the same session with a greater recorded sequence than `entry`.
    /// - `Memory`: an allocation failed. The call returns `Memory` only for a new session.
    pub fn put(&mut self, entry: Entry) -> Result<(), LogFault>
        ensures answer { GivesUnlessMemory result (put_answer self.old (value_of entry)) }
        // Replacing the entry of an existing session does not allocate.
        ensures known { IsTrue (holds self.old entry.session) → result ≡ put_answer self.old (value_of entry) }
        ensures ok { OnOk result (self.new ≡ with_entry self.old (value_of entry)) }
        ensures changes { OnOk result (ChangesOnly self.old self.new (value_of entry)) }
        ensures err { OnErr result (self.new ≡ self.old) }
        ensures log { IsLog self.new }
    {
        match self.entries.get_mut(&entry.session) {
            Some(place) => {
                let stored = place.recorded;
                if stored > entry.recorded {
                    return Err(LogFault::Older { stored });
                }
                *place = entry;
                Ok(())
            }
            None => {
                self.entries.insert(entry.session, entry)?;
                Ok(())
            }
        }
    }

    /// Stores an entry as `put` does, even if the stored entry of the session has a greater recorded sequence.
    ///
    /// An error changes nothing.
    pub fn set(&mut self, entry: Entry) -> Result<(), AllocError>
        ensures ok { OnOk result (self.new ≡ with_entry self.old (value_of entry)) }
        ensures err { OnErr result (self.new ≡ self.old) }
        ensures log { IsLog self.new }
    {
        // The function calls `len` for the contract of `len`, which states that no session id occurs twice.
        let _len = self.entries.len();
        self.entries.insert(entry.session, entry)?;
        Ok(())
    }

    /// Releases unused capacity.
    pub(crate) fn shrink(&mut self)
        ensures { self.new ≡ self.old }
    {
        self.entries.shrink_to_fit();
    }

    /// Returns the number of sessions in the log.
    pub fn len(&self) -> usize
        ensures len { result ≡ length self.now }
        ensures log { IsLog self.now }
    {
        self.entries.len()
    }

    /// Returns the entry at an index, if it exists. The index of the newest session's entry is 0.
    pub fn get(&self, place: usize) -> Option<Entry>
        ensures { option_map value_of result ≡ slice_get self.now place }
    {
        let len = self.entries.len();
        if place >= len {
            return None;
        }
        let (_, entry) = self.entries.get_index(len - 1 - place)?;
        Some(*entry)
    }

    /// Returns the recorded sequence of a session, if the log has an entry of this session.
    pub fn recorded_of(&self, session: SessionId) -> Option<u64>
        ensures { result ≡ recorded_of self.now session }
    {
        // The function calls `len` for the contract of `len`, which states that no session id occurs twice.
        let _len = self.entries.len();
        let entry = self.entries.get(&session)?;
        Some(entry.recorded)
    }

    /// Copies the log.
    pub fn copy(&self, alloc: Global) -> Result<Log, AllocError>
        ensures copied { IfOk result (λ l. l ≡ self.now) }
        ensures log { IsLog self.now }
    {
        let entries = self.entries.clone()?;
        Ok(Log { entries })
    }
}
