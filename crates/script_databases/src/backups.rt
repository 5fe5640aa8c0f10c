//! Named backups of databases (docs/PROFILE.md, "Backup and restore").
ghost use Rattle.std.specs.Prelude.{◌≡◌, ◌++◌, ◌∷◌, [], None, IfOk, OnErr, OnOk, string_bytes};
ghost use Rattle.std.specs.Option.{option_copied};
ghost use Rattle.script_databases.specs.Databases.{NamedBackupValue, backup_among};

use indexmap::IndexMap;
use repl_target::Backup;
use std::alloc::{AllocError, Global};
use std::marker::Model;

/// The key of a backup: the name of the database, and the name of the backup. A database has at most one backup with a
/// given name.
#[derive(Debug, Drop, PartialEq, Eq, Hash)]
pub struct BackupName {
    db: String,
    name: String,
}

impl BackupName {
    /// Creates the key of the backup `name` of the database `db`.
    pub fn new(alloc: Global, db: &str, name: &str) -> Result<BackupName, AllocError>
        ensures db { IfOk result (λ k. string_bytes k.db ≡ db.now) }
        ensures name { IfOk result (λ k. string_bytes k.name ≡ name.now) }
    {
        let db = String::from_str(alloc, db)?;
        let name = String::from_str(alloc, name)?;
        Ok(BackupName { db, name })
    }
}

/// Backups by key, oldest first.
#[derive(Drop)]
pub struct Backups {
    by_name: IndexMap<BackupName, Backup>,
}

impl Model for Backups {
    ghost use Rattle.std.specs.Prelude.{List};
    ghost use Rattle.std.specs.Coded.{coded_list};
    ghost use Rattle.script_databases.specs.Databases.{NamedBackupValue, coded_named_backup};
    ghost use Rattle.script_databases.specs.Stored.{copies_of};

    ghost Value = { List NamedBackupValue };

    ghost coded = { coded_list coded_named_backup };

    ghost view = { λ b. copies_of b.by_name.entries };
}

impl Backups {
    /// Creates an empty set of backups.
    pub fn new(alloc: Global) -> Backups
        ensures { result ≡ [] }
    {
        Backups {
            by_name: IndexMap::new(alloc),
        }
    }

    /// Returns the backup with the given key, if it exists.
    pub fn find(&self, name: &BackupName) -> Option<&Backup>
        ensures { option_copied result ≡ backup_among self.now (string_bytes name.now.db) (string_bytes name.now.name) }
    {
        self.by_name.get(name)
    }

    /// Adds a backup under an unused key. An error changes nothing.
    pub fn add(&mut self, name: BackupName, backup: Backup) -> Result<(), AllocError>
        requires absent { backup_among self.old (string_bytes name.db) (string_bytes name.name) ≡ None }
        ensures ok { OnOk result (self.new ≡ self.old
            ++ record { db = string_bytes name.db; name = string_bytes name.name; backup = backup } ∷ []) }
        ensures err { OnErr result (self.new ≡ self.old) }
    {
        self.by_name.insert(name, backup)?;
        Ok(())
    }
}
