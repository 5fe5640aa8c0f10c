//! The databases of a script.
ghost use Rattle.std.specs.Prelude.{◌≡◌, [], false, true, None, Err, IfOk, OnErr, OnOk, option_map};
ghost use Rattle.std.specs.FinMap.{contains_key};
ghost use Rattle.std.specs.Option.{option_copied};
ghost use Rattle.script_databases.specs.Consistent.{CoversUpTo, IsConsistent, IsStored};
ghost use Rattle.script_databases.specs.Databases.{State, coded_state, edited_as, put_back_of};
ghost use Rattle.script_databases.specs.Refusals.{base_refusal, target_refusal, told_as};
ghost use Rattle.script_databases.specs.Stored.{beside_of, program_of, state_of};

use crate::backups::{BackupName, Backups};
use crate::made_ids::MadeIds;
use crate::pair::{find_both, put_in, take_out};
use crate::refusal::Refusal;
use crate::settings::Settings;
use crate::watched::{Watched, board_for, with_reading};
use couch_base::{BaseFault, Put};
use doc_json::{Body, Doc, DocId};
use indexmap::{IndexMap, IndexSet};
use repl_pool::{Open, PoolFault, Progress, Ran, check_run, run, run_on};
use repl_target::{Peer, Plan, Report, Rules, TargetFault, check_peers, replicate_alone};
use rev_core::Rev;
use std::alloc::{AllocError, Global};
use std::marker::Model;
use std::sync::Wait;
use std::thread::Threads;

/// The result of an edit: the new revision, and the update sequence after the edit.
#[derive(Clone, Copy, Debug, PartialEq, Eq)]
pub struct Edited {
    pub rev: Rev,
    pub seq: u64,
}

/// The update sequence and the life (a number that changes with a restore) of a restored database.
#[derive(Clone, Copy, Debug, PartialEq, Eq)]
pub struct PutBack {
    pub seq: u64,
    pub life: u64,
}

/// Peers by name.
pub type Names = IndexMap<String, Peer<Rules>>;

/// The databases of a script: peers by name, an index of their UUIDs, and the number of generated ids. All peers have
/// the write filter from the settings. All databases are consistent with each other after every call, even if the call
/// fails (`law`).
pub struct Databases {
    settings: Settings,
    by_name: Names,
    uuids: IndexSet<u128>,
    /// The number of generated ids.
    drawn: u128,
    /// Backups, the oldest first.
    backups: Backups,
}

// A derived implementation of `Drop` would be proved again in each crate that owns a `Databases` (docs/DECISIONS.md,
// "Letting values go").
impl Drop for Databases {
    fn drop(self) {
        let Databases {
            settings: _,
            by_name: _,
            uuids: _,
            drawn: _,
            backups: _,
        } = self;
    }
}

impl Model for Databases {
    ghost Value = { State };

    ghost coded = { coded_state };

    ghost view = { λ a. state_of (beside_of a.settings a.drawn a.backups) a.by_name.entries };

    ghost invariant = { λ a. IsStored (beside_of a.settings a.drawn a.backups) a.by_name.entries a.uuids.keys };
}

impl Databases {
    ghost use Rattle.script_databases.specs.Databases.{IsTaken, backed_answer, backed_at, backed_told, backup_at, put_back_answer, put_back_by, drawn_one, edited_answer, edited_at, load_answer, loaded_at, next_made, no_databases, peer_at, with_peer};
    ghost use Rattle.script_databases.specs.Stored.{deny_of, program_of};
    ghost use Rattle.repl_peer.specs.peer.Peer.{new_peer};
    ghost use Rattle.script_databases.specs.Refusals.{GivesOrMemory};
    ghost use Rattle.script_databases.specs.Replications.{ReplicatesAlone, ReplicatesBetween, ReplicatesByPool, ReplicatesWatched};

    /// Creates an empty set of databases, with a copy of the settings.
    pub fn new(alloc: Global, settings: &Settings) -> Result<Databases, AllocError>
        ensures none { IfOk result (λ databases. databases ≡ no_databases (program_of settings.now)) }
    {
        let settings = settings.copy(alloc)?;
        Ok(Databases {
            settings,
            by_name: IndexMap::new(alloc),
            uuids: IndexSet::new(alloc),
            drawn: 0,
            backups: Backups::new(alloc),
        })
    }

    /// Provides proofs with the invariant of the databases, and has no effect at run time. The invariant says that all
    /// databases are consistent with each other (docs/PROFILE.md, "Tied databases").
    pub fn law(&self)
        ensures { IsConsistent self.now }
    {
        let _ = &self.drawn;
    }

    /// Returns the settings of the program.
    pub fn settings(&self) -> &Settings
        ensures { program_of result.now ≡ self.now.program }
    {
        &self.settings
    }

    /// Returns the peer with a given name, if it exists.
    #[tactic(auto, using(crate::proofs::Tables::peer_of))]
    pub fn find(&self, name: &str) -> Option<&Peer<Rules>>
        ensures { option_map (λ p. p.1) (option_copied result) ≡ peer_at self.now name.now }
    {
        self.by_name.get(name)
    }

    /// Whether a peer with a given name exists.
    #[tactic(auto, using(crate::proofs::Tables::has_at))]
    pub fn has(&self, name: &str) -> bool
        ensures { result ≡ contains_key self.now.peers name.now }
    {
        self.by_name.contains_key(name)
    }

    /// Whether a database has a given UUID.
    pub fn is_taken(&self, uuid: u128) -> bool
        ensures taken { result ≡ true → IsTaken self.now uuid }
        ensures free { result ≡ false → IsTaken self.now uuid → ⊥ }
    {
        self.uuids.contains(&uuid)
    }

    /// Generates the next id.
    pub fn draw(&mut self) -> u128
        ensures id { result ≡ next_made self.old }
        ensures drawn { self.new ≡ drawn_one self.old }
    {
        let mut ids = MadeIds {
            seed: self.settings.seed,
            drawn: self.drawn,
        };
        let id = ids.draw();
        self.drawn = ids.drawn;
        id
    }

    /// Creates an empty peer with a given UUID and the filter from the settings.
    pub fn make(&self, alloc: Global, uuid: u128) -> Result<Peer<Rules>, AllocError>
        ensures { IfOk result (λ p. (p.1 ≡ new_peer uuid) × (deny_of p.0 ≡ self.now.program.deny)) }
    {
        let deny = match &self.settings.deny {
            Some(prefix) => Some(String::from_str(alloc, prefix.as_str())?),
            None => None,
        };
        Ok(Peer::new(alloc, uuid, Rules { deny }))
    }

    /// Adds a peer under an unused name. The peer must have the filter from the settings, no sessions, no logs, and a
    /// UUID that no database has.
    pub fn add(&mut self, alloc: Global, name: &str, peer: Peer<Rules>) -> Result<(), AllocError>
        requires absent { peer_at self.old name.now ≡ None }
        requires filter { deny_of peer.0 ≡ self.old.program.deny }
        requires fresh { IsTaken self.old peer.1.db.uuid → ⊥ }
        requires unused { (peer.1.sessions ≡ []) × (peer.1.outgoing ≡ []) }
        ensures ok { OnOk result (self.new ≡ with_peer self.old name.now peer.1) }
        ensures err { OnErr result (self.new ≡ self.old) }
    {
        let key = String::from_str(alloc, name)?;
        let uuid = peer.db().uuid();
        peer.law();
        self.by_name.reserve(1)?;
        self.uuids.insert(uuid)?;
        self.by_name.insert(key, peer)?;
        Ok(())
    }

    /// Loads a document into a database.
    ///
    /// # Errors
    ///
    /// The call returns `NoDatabase` if the name is unknown, and otherwise the error of the database.
    #[tactic(auto, using(crate::proofs::Tables::peer_of))]
    pub fn load(&mut self, name: &str, doc: &Doc) -> Result<Put, Refusal>
        ensures answer { GivesOrMemory result (load_answer (peer_at self.old name.now) doc.now) }
        ensures ok { OnOk result (self.new ≡ loaded_at self.old name.now doc.now) }
        ensures err { OnErr result (self.new ≡ self.old) }
    {
        let Some(peer) = self.by_name.get_mut(name) else {
            return Err(Refusal::NoDatabase);
        };
        let answer = peer.load(doc);
        peer.law();
        load_told(answer)
    }

    /// Edits a document of a database.
    ///
    /// # Errors
    ///
    /// The call returns `NoDatabase` if the name is unknown, and otherwise the error of the database.
    #[tactic(auto, using(crate::proofs::Tables::peer_of))]
    pub fn edit(
        &mut self,
        name: &str,
        id: &DocId,
        parent: Option<Rev>,
        deleted: bool,
        body: &Body,
    ) -> Result<Edited, Refusal>
        ensures answer { GivesOrMemory result
            (edited_answer (peer_at self.old name.now) id.now parent deleted body.now) }
        ensures ok { OnOk result (self.new ≡ edited_at self.old name.now id.now parent deleted body.now) }
        ensures err { OnErr result (self.new ≡ self.old) }
    {
        let Some(peer) = self.by_name.get_mut(name) else {
            return Err(Refusal::NoDatabase);
        };
        let answer = peer.edit(id, parent, deleted, body);
        peer.law();
        edit_told(peer, answer)
    }

    /// Saves a backup of the database `db` under a name. Returns the update sequence of the backup (docs/PROFILE.md,
    /// "Backup and restore").
    ///
    /// # Errors
    ///
    /// If the name `db` is unknown, the error is `NoDatabase`. If the database already has a backup of the name `name`,
    /// the error is `BackupExists`. If the database has been a replication target, the error is `IsTarget`. The call
    /// checks for these errors in this order.
    pub fn back_up(&mut self, alloc: Global, db: &str, name: &str) -> Result<u64, Refusal>
        ensures answer { GivesOrMemory result (backed_told (backed_answer self.old db.now name.now)) }
        ensures ok { OnOk result (self.new ≡ backed_at self.old db.now name.now) }
        ensures err { OnErr result (self.new ≡ self.old) }
    {
        let Some(peer) = self.find(db) else {
            return Err(Refusal::NoDatabase);
        };
        let key = BackupName::new(alloc, db, name)?;
        if self.backups.find(&key).is_some() {
            return Err(Refusal::BackupExists);
        }
        let backup = match peer.backup(alloc) {
            Ok(backup) => backup,
            Err(fault) => return Err(Refusal::from(fault)),
        };
        let seq = backup.db().update_seq();
        self.backups.add(key, backup)?;
        Ok(seq)
    }

    /// Restores the database `db` from its backup of a given name, and keeps the backup. Returns the new update
    /// sequence and life (docs/PROFILE.md, "Backup and restore").
    ///
    /// # Errors
    ///
    /// Checked in this order:
    ///
    /// - `NoDatabase`: no database has the name `db`.
    /// - `NoBackup`: the database has no backup of the name `name`.
    /// - `IsTarget`: the database has been a replication target.
    /// - `LifeFull`: no life is left for the restored database.
    #[tactic(auto, using(crate::proofs::Tables::peer_of))]
    pub fn put_back(&mut self, db: &str, name: &str) -> Result<PutBack, Refusal>
        ensures answer { GivesOrMemory result
            (put_back_answer (peer_at self.old db.now) (backup_at self.old db.now name.now)) }
        ensures ok { OnOk result (self.new ≡ put_back_by self.old db.now (backup_at self.old db.now name.now)) }
        ensures err { OnErr result (self.new ≡ self.old) }
    {
        let alloc = *self.by_name.allocator();
        let key = BackupName::new(alloc, db, name)?;
        let Some(backup) = self.backups.find(&key) else {
            return Err(self.missing(db));
        };
        let Some(peer) = self.by_name.get_mut(db) else {
            return Err(Refusal::NoDatabase);
        };
        let answer = peer.restore(backup);
        peer.law();
        restore_told(peer, answer)
    }

    /// Returns the error for a backup that does not exist. If the name of the database is unknown, the error is
    /// `NoDatabase`, and otherwise `NoBackup`.
    fn missing(&self, db: &str) -> Refusal
        ensures { Err result ≡ put_back_answer (peer_at self.now db.now) None }
    {
        match self.find(db) {
            Some(_) => Refusal::NoBackup,
            None => Refusal::NoDatabase,
        }
    }

    /// Replicates from one existing database to another with a pool of threads. `replicate` blocks until the
    /// replication has ended.
    ///
    /// A plan that is rejected at the start changes nothing. A replication from a database to itself is rejected
    /// at the start.
    pub fn replicate<H: Threads + Wait + Sync>(
        &mut self,
        rt: &H,
        alloc: Global,
        source: &str,
        target: &str,
        plan: &Plan,
    ) -> Result<Report, PoolFault>
        requires source { contains_key self.old.peers source.now ≡ true }
        requires target { contains_key self.old.peers target.now ≡ true }
        ensures between { ReplicatesBetween ReplicatesByPool self.old source.now target.now plan.now result self.new }
        ensures covered { IfOk result
            (λ report. CoversUpTo self.new source.now target.now plan.now.chosen report.recorded) }
    {
        let (sender, receiver) = find_both(&self.by_name, source, target);
        check_run(sender, receiver, plan)?;
        let (sender, receiver) = take_out(&mut self.by_name, alloc, source, target);
        let Ran {
            source: sender,
            target: receiver,
            fetched: _,
            seats: _,
            outcome,
        } = run(rt, alloc, sender, receiver, plan, &Open);
        sender.law();
        receiver.law();
        put_in(&mut self.by_name, source, target, sender, receiver);
        outcome
    }

    /// Replicates as `replicate` does, with a new progress board. The board has one viewer, with which the call reads
    /// the board after the run.
    ///
    /// # Errors
    ///
    /// The call returns the errors of `replicate`. If the board cannot be allocated, the call returns `Memory` and
    /// changes nothing.
    pub fn replicate_watched<H: Threads + Wait + Sync>(
        &mut self,
        rt: &H,
        alloc: Global,
        source: &str,
        target: &str,
        plan: &Plan,
    ) -> Result<Watched, PoolFault>
        requires source { contains_key self.old.peers source.now ≡ true }
        requires target { contains_key self.old.peers target.now ≡ true }
        ensures between { ReplicatesBetween ReplicatesWatched self.old source.now target.now plan.now result self.new }
        ensures covered { IfOk result
            (λ watched. CoversUpTo self.new source.now target.now plan.now.chosen watched.report.recorded) }
    {
        let (sender, receiver) = find_both(&self.by_name, source, target);
        check_run(sender, receiver, plan)?;
        let (board, seats, mut viewer) = board_for(alloc, plan.workers)?;
        let progress = Progress {
            board: &board,
            seats,
        };
        let (sender, receiver) = take_out(&mut self.by_name, alloc, source, target);
        let Ran {
            source: sender,
            target: receiver,
            fetched: _,
            seats: _,
            outcome,
        } = run_on(rt, alloc, sender, receiver, plan, &Open, progress);
        sender.law();
        receiver.law();
        put_in(&mut self.by_name, source, target, sender, receiver);
        with_reading(&board, &mut viewer, outcome)
    }

    /// Replicates from one existing database to another with one thread.
    ///
    /// A plan that is rejected at the start changes nothing. A replication from a database to itself is rejected
    /// at the start.
    pub fn replicate_alone(
        &mut self,
        alloc: Global,
        source: &str,
        target: &str,
        plan: &Plan,
    ) -> Result<Report, TargetFault>
        requires source { contains_key self.old.peers source.now ≡ true }
        requires target { contains_key self.old.peers target.now ≡ true }
        ensures between { ReplicatesBetween ReplicatesAlone self.old source.now target.now plan.now result self.new }
        ensures covered { IfOk result
            (λ report. CoversUpTo self.new source.now target.now plan.now.chosen report.recorded) }
    {
        let (sender, receiver) = find_both(&self.by_name, source, target);
        check_peers(sender, receiver, plan)?;
        let (mut sender, mut receiver) = take_out(&mut self.by_name, alloc, source, target);
        sender.law();
        receiver.law();
        let outcome = replicate_alone(alloc, &mut sender, &mut receiver, plan);
        sender.law();
        receiver.law();
        put_in(&mut self.by_name, source, target, sender, receiver);
        outcome
    }
}

/// Returns the result of a load with the name of its error.
fn load_told(answer: Result<Put, BaseFault>) -> Result<Put, Refusal>
    ensures { result ≡ told_as base_refusal answer }
{
    match answer {
        Ok(put) => Ok(put),
        Err(fault) => Err(Refusal::from(fault)),
    }
}

/// Returns the result of an edit of a peer: the new revision with the peer's update sequence, or the error.
fn edit_told(peer: &Peer<Rules>, answer: Result<Rev, BaseFault>) -> Result<Edited, Refusal>
    ensures { result ≡ edited_as peer.now.1 answer }
{
    match answer {
        Ok(rev) => Ok(Edited {
            rev,
            seq: peer.db().update_seq(),
        }),
        Err(fault) => Err(Refusal::from(fault)),
    }
}

/// Returns the result of a restore: the peer's update sequence and life, or the error.
fn restore_told(peer: &Peer<Rules>, answer: Result<(), TargetFault>) -> Result<PutBack, Refusal>
    ensures { result ≡ put_back_of peer.now.1 (told_as target_refusal answer) }
{
    match answer {
        Ok(()) => Ok(PutBack {
            seq: peer.db().update_seq(),
            life: peer.db().life(),
        }),
        Err(fault) => Err(Refusal::from(fault)),
    }
}
