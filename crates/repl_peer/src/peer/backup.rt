//! Backs up and restores a peer.
ghost use Rattle.std.specs.Prelude.{◌≡◌, ◌+◌, ◌≤◌, false, Ok, Err, IfOk, IfErr, OnOk, OnErr};
ghost use Rattle.couch_base.specs.Database.{most};
ghost use Rattle.repl_peer.specs.peer.Law.{Lawful};
ghost use Rattle.repl_peer.specs.session.Sessions.{GivesUnlessMemory};
ghost use Rattle.repl_peer.specs.peer.Backups.{is_target, backup_answer, greater_life, restore_answer, after_restore};

use crate::fault::TargetFault;
use crate::peer::Peer;
use crate::peer::filter::WriteFilter;
use crate::peer::local::Locals;
use couch_base::{Database, MOST_SEQUENCE};
use repl_log::Logs;
use std::alloc::Global;
use std::marker::Model;

/// A copy of a peer without incoming sessions: its database, its local writes, and its outgoing logs.
pub struct Backup {
    pub(crate) db: Database,
    pub(crate) locals: Locals,
    pub(crate) outgoing: Logs,
}

// `Backup` implements `Drop` by hand. With `#[derive(Drop)]`, each crate that owns a `Backup` would have to prove the
// derived code again (docs/DECISIONS.md, "Letting values go").
impl Drop for Backup {
    fn drop(self) {
        let Backup {
            db: _,
            locals: _,
            outgoing: _,
        } = self;
    }
}

impl Model for Backup {
    ghost use Rattle.repl_peer.specs.peer.Backups.{BackupValue};
    ghost use Rattle.repl_peer.specs.peer.PeerCode.{coded_backup};

    ghost Value = { BackupValue };

    ghost coded = { coded_backup };

    ghost use Rattle.repl_peer.specs.peer.Stored.{IsStoredBackup};

    ghost view = { λ b. record { db = b.db; locals = b.locals; outgoing = b.outgoing } };

    ghost invariant = { λ b. IsStoredBackup (record {
      db = b.db;
      locals = b.locals;
      outgoing = b.outgoing;
    }) };
}

impl Backup {
    ghost use Rattle.repl_peer.specs.peer.Backups.{IsBackup};

    /// Returns the copied database. Each revision of the backup's database comes from a local write of the backup.
    pub fn db(&self) -> &Database
        ensures value { result.now ≡ self.now.db }
        ensures backup { IsBackup self.now }
    {
        &self.db
    }
}

impl<F: WriteFilter> Peer<F> {
    /// Copies the database, the local writes and the outgoing logs.
    ///
    /// # Errors
    ///
    /// - `IsTarget`: the peer has an incoming session.
    /// - `Memory`: an allocation failed.
    pub fn backup(&self, alloc: Global) -> Result<Backup, TargetFault>
        ensures { GivesUnlessMemory result (backup_answer self.now.1) }
    {
        if self.sessions.len() > 0 {
            return Err(TargetFault::IsTarget);
        }
        let db = self.db.copy(alloc)?;
        let locals = self.locals.copy();
        let outgoing = self.outgoing.copy(alloc)?;
        Ok(Backup {
            db,
            locals,
            outgoing,
        })
    }

    /// Replaces the peer's database, local writes and outgoing logs with the values in a backup. After the restore, the
    /// database's life (a number) is 1 plus the greater of the database's earlier life and the backup's life.
    ///
    /// # Errors
    ///
    /// Checked in this order; an error changes nothing:
    ///
    /// - `IsTarget`: the peer has an incoming session.
    /// - `ForeignBackup`: the backup's database has another UUID.
    /// - `LifeFull`: the life of the restored database (a number that each restore raises) would exceed
    ///   9,007,199,254,740,991.
    /// - `Memory`: an allocation failed.
    pub fn restore(&mut self, backup: &Backup) -> Result<(), TargetFault>
        ensures answer { GivesUnlessMemory result (restore_answer self.old.1 backup.now) }
        ensures filter { self.new.0 ≡ self.old.0 }
        ensures ok { OnOk result (self.new.1 ≡ after_restore self.old.1 backup.now) }
        ensures err { OnErr result (self.new.1 ≡ self.old.1) }
        ensures law { Lawful (F.refuses self.new.0) self.new.1 }
    {
        let life = self.next_life(backup)?;
        // Only the proof needs the call of `backup.db()`: the contract of `db` states that the backup satisfies the
        // invariant of backups.
        let _copy = backup.db();
        self.law();
        let alloc = self.sessions.allocator();
        let db = backup.db.copy_in(alloc, life)?;
        let locals = backup.locals.copy();
        let outgoing = backup.outgoing.copy(alloc)?;
        self.db = db;
        self.locals = locals;
        self.outgoing = outgoing;
        Ok(())
    }

    /// Returns the life that the database has after restoring a backup, or the error of the restore.
    fn next_life(&self, backup: &Backup) -> Result<u64, TargetFault>
        ensures ok { OnOk result (restore_answer self.now.1 backup.now ≡ Ok tt) }
        ensures life { IfOk result (λ life. (life ≡ greater_life self.now.1 backup.now + 1) × (life ≤ most)) }
        ensures err { IfErr result (λ why. restore_answer self.now.1 backup.now ≡ Err why) }
        ensures empty { OnOk result (is_target self.now.1.sessions ≡ false) }
    {
        if self.sessions.len() > 0 {
            return Err(TargetFault::IsTarget);
        }
        if backup.db.uuid() != self.db.uuid() {
            return Err(TargetFault::ForeignBackup);
        }
        let life = self.db.life().max(backup.db.life());
        if life >= MOST_SEQUENCE {
            return Err(TargetFault::LifeFull);
        }
        Ok(life + 1)
    }
}
