//! The logs of all replications.
ghost use Rattle.std.specs.Prelude.{◌≡◌, [], OnOk, OnErr, IfOk};
ghost use Rattle.std.specs.Option.{option_copied};
ghost use Rattle.std.specs.Map.{lookup};

use crate::entry::Entry;
use crate::fault::LogFault;
use crate::log::Log;
use crate::replication::RepId;
use indexmap::IndexMap;
use std::alloc::{AllocError, Global};
use std::marker::Model;

/// The logs of replications, in the order in which the logs were created.
pub struct Logs {
    logs: IndexMap<RepId, Log>,
}

// `Drop` is implemented by hand. The code of `#[derive(Drop)]` would be proved again in each crate that owns a `Logs`
// (docs/DECISIONS.md, "Letting values go").
impl Drop for Logs {
    fn drop(self) {
        let Logs { logs: _ } = self;
    }
}

impl Model for Logs {
    ghost use Rattle.std.specs.Prelude.{List};
    ghost use Rattle.repl_log.specs.declared.replication.RepId.{RepId};
    ghost use Rattle.repl_log.specs.Entry.{EntryValue};

    ghost Value = { List (RepId × List EntryValue) };

    ghost view = { λ l. l.logs.entries };
}

impl Logs {
    ghost use Rattle.repl_log.specs.Answers.{GivesUnlessMemory};
    ghost use Rattle.repl_log.specs.Entry.{value_of};
    ghost use Rattle.repl_log.specs.RepId.{same_rep};
    ghost use Rattle.repl_log.specs.Logs.{log_in, logs_with, put_answer_in};

    /// Creates an empty table.
    pub fn new(alloc: Global) -> Logs
        ensures { result ≡ [] }
    {
        Logs {
            logs: IndexMap::new(alloc),
        }
    }

    /// Returns the log of a replication, if that log exists.
    pub fn get(&self, rep: &RepId) -> Option<&Log>
        ensures { option_copied result ≡ lookup (same_rep rep.now) self.now }
    {
        self.logs.get(rep)
    }

    /// Returns a copy of the log of a replication, or an empty log if that log does not exist.
    pub fn copy_of(&self, alloc: Global, rep: &RepId) -> Result<Log, AllocError>
        ensures log { IfOk result (λ l. l ≡ log_in self.now rep.now) }
    {
        match self.logs.get(rep) {
            Some(log) => log.copy(alloc),
            None => Ok(Log::new(alloc)),
        }
    }

    /// Stores an entry in the log of a replication as `Log::put` does. If the replication has no log, the call creates
    /// a log for the replication.
    ///
    /// # Errors
    ///
    /// Checked in this order; an error changes nothing:
    ///
    /// - `Older`: the log already has an entry of the same session with a greater recorded sequence than `entry`.
    /// - `Memory`: an allocation failed.
    pub fn put(&mut self, rep: &RepId, entry: Entry) -> Result<(), LogFault>
        ensures answer { GivesUnlessMemory result (put_answer_in self.old rep.now (value_of entry)) }
        ensures ok { OnOk result (self.new ≡ logs_with self.old rep.now (value_of entry)) }
        ensures err { OnErr result (self.new ≡ self.old) }
    {
        let alloc = *self.logs.allocator();
        match self.logs.get_mut(rep) {
            Some(log) => log.put(entry),
            None => {
                let mut log = Log::new(alloc);
                log.set(entry)?;
                log.shrink();
                let rep = rep.copy(alloc)?;
                self.logs.insert(rep, log)?;
                fit(&mut self.logs);
                Ok(())
            }
        }
    }

    /// Copies all logs, and keeps their order.
    pub fn copy(&self, alloc: Global) -> Result<Logs, AllocError>
        ensures copied { IfOk result (λ l. l ≡ self.now) }
    {
        let mut logs = IndexMap::new(alloc);
        for place in 0..self.logs.len() {
            let Some((rep, log)) = self.logs.get_index(place) else {
                unreachable!()
            };
            let (rep, log) = copied(alloc, rep, log)?;
            logs.insert(rep, log)?;
        }
        Ok(Logs { logs })
    }
}

/// Releases the table's unused capacity if the table has exactly one log. Most sources have only one target.
fn fit(logs: &mut IndexMap<RepId, Log>)
    ensures { logs.new.entries ≡ logs.old.entries }
{
    if logs.len() == 1 {
        logs.shrink_to_fit();
    }
}

/// Copies a log together with its replication id.
fn copied(alloc: Global, rep: &RepId, log: &Log) -> Result<(RepId, Log), AllocError>
    ensures copied { IfOk result (λ e. (e.0 ≡ rep.now) × (e.1 ≡ log.now)) }
{
    let rep = rep.copy(alloc)?;
    let log = log.copy(alloc)?;
    Ok((rep, log))
}
