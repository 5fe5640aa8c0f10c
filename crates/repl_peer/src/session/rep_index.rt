//! A lookup table of sessions by replication.
ghost use Rattle.std.specs.Prelude.{◌≡◌, ◌++◌, ◌∷◌, [], OnOk, OnErr, if◌then◌else◌};
ghost use Rattle.repl_log.specs.declared.replication.RepId.{RepId};
ghost use Rattle.repl_log.specs.RepId.{same_rep};

use indexmap::IndexMap;
use repl_log::RepId;
use rev_tree::SessionId;
use std::alloc::{AllocError, Global};

/// For each replication, the ids of its sessions, in the order in which the sessions began.
#[derive(Drop)]
pub(crate) struct RepIndex {
    ids: IndexMap<RepId, Vec<SessionId>>,
}

impl RepIndex {
    ghost use Rattle.repl_peer.specs.session.RepIndex.{listed};

    /// Creates an empty index.
    pub(crate) fn new(alloc: Global) -> RepIndex
        ensures { (rep : RepId) → listed result rep ≡ [] }
    {
        RepIndex {
            ids: IndexMap::new(alloc),
        }
    }

    /// Returns the sessions of a replication, oldest first.
    pub(crate) fn of(&self, rep: &RepId) -> &[SessionId]
        ensures { result.now ≡ listed self.now rep.now }
    {
        match self.ids.get(rep) {
            Some(ids) => ids.as_slice(),
            None => &[],
        }
    }

    /// Adds a session, which becomes the newest session of its replication. An error changes nothing.
    pub(crate) fn add(&mut self, rep: &RepId, id: SessionId) -> Result<(), AllocError>
        ensures ok { OnOk result ((asked : RepId) → listed self.new asked
            ≡ (if same_rep rep.now asked then listed self.old asked ++ id ∷ [] else listed self.old asked)) }
        ensures err { OnErr result ((asked : RepId) → listed self.new asked ≡ listed self.old asked) }
    {
        let alloc = *self.ids.allocator();
        match self.ids.get_mut(rep) {
            Some(ids) => {
                ids.push(id)?;
                Ok(())
            }
            None => {
                let rep = rep.copy(alloc)?;
                let mut ids = Vec::new(alloc);
                ids.push(id)?;
                self.ids.insert(rep, ids)?;
                Ok(())
            }
        }
    }
}
