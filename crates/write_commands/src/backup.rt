//! `backup`: saves a named copy of a database.
ghost use Rattle.std.specs.Prelude.{◌≡◌, ◌++◌, OnOk};
ghost use Rattle.json_values.specs.LineView.{line_view};
ghost use Rattle.write_commands.specs.Backup.{backed_line};

use command_api::{Command, has_only_members, name_member, push_number};
use json_values::Line;
use script_databases::{Databases, Refusal};
use std::alloc::{AllocError, Global};
use std::sync::Wait;
use std::thread::Threads;

/// The parameters of a `backup` line.
#[derive(Drop)]
pub struct Backup<'a> {
    pub db: &'a str,
    /// The name of the backup, unique within its database.
    pub name: &'a str,
}

impl<'v, 'a> Command<&'v Line<'a>> for Backup<'v> {
    ghost use Rattle.write_commands.specs.Backup.{BacksUp, BackupAsk, backup_asked, backup_in};

    ghost seen = { λ line. line_view line.now };

    ghost Ask = { BackupAsk };

    ghost asked = { backup_asked };

    ghost asked_in = { backup_in };

    ghost answers = { BacksUp };

    fn read(line: &'v Line<'a>) -> Option<Backup<'v>> {
        let value = line.value();
        let db = name_member(value, "db")?;
        let name = name_member(value, "name")?;
        if !has_only_members(value, &["do", "db", "name"]) {
            return None;
        }
        Some(Backup { db, name })
    }

    /// Runs `backup`.
    fn serve<H: Threads + Wait + Sync>(
        &self,
        _rt: &H,
        alloc: Global,
        databases: &mut Databases,
        answer: &mut Vec<u8>,
    ) -> Result<(), Refusal> {
        let seq = databases.back_up(alloc, self.db, self.name)?;
        print(answer, self.db, self.name, seq)?;
        Ok(())
    }
}

/// Prints the names of the database and of the backup, and the update sequence of the backup.
fn print(answer: &mut Vec<u8>, db: &str, name: &str, seq: u64) -> Result<(), AllocError>
    ensures { OnOk result (answer.new.items ≡ answer.old.items ++ backed_line db.now name.now seq) }
{
    answer.extend_from_slice(b"backed ")?;
    answer.extend_from_slice(db.as_bytes())?;
    answer.extend_from_slice(b" ")?;
    answer.extend_from_slice(name.as_bytes())?;
    answer.extend_from_slice(b" at ")?;
    push_number(answer, seq)?;
    answer.extend_from_slice(b"\n")
}
