//! `restore`: replaces a database by one of the database's backups.
ghost use Rattle.std.specs.Prelude.{◌≡◌, ◌++◌, OnOk};
ghost use Rattle.json_values.specs.LineView.{line_view};
ghost use Rattle.write_commands.specs.Restore.{left_part, restored_line};

use command_api::{Command, has_only_members, name_member, push_number};
use json_values::Line;
use script_databases::{Databases, PutBack, Refusal};
use std::alloc::{AllocError, Global};
use std::sync::Wait;
use std::thread::Threads;

/// The parameters of a `restore` line.
#[derive(Drop)]
pub struct Restore<'a> {
    pub db: &'a str,
    /// The name of the backup, unique within its database.
    pub name: &'a str,
}

impl<'v, 'a> Command<&'v Line<'a>> for Restore<'v> {
    ghost use Rattle.write_commands.specs.Restore.{RestoreAsk, Restores, restore_asked, restore_in};

    ghost seen = { λ line. line_view line.now };

    ghost Ask = { RestoreAsk };

    ghost asked = { restore_asked };

    ghost asked_in = { restore_in };

    ghost answers = { Restores };

    fn read(line: &'v Line<'a>) -> Option<Restore<'v>> {
        let value = line.value();
        let db = name_member(value, "db")?;
        let name = name_member(value, "name")?;
        if !has_only_members(value, &["do", "db", "name"]) {
            return None;
        }
        Some(Restore { db, name })
    }

    /// Runs `restore`.
    fn serve<H: Threads + Wait + Sync>(
        &self,
        _rt: &H,
        _alloc: Global,
        databases: &mut Databases,
        answer: &mut Vec<u8>,
    ) -> Result<(), Refusal> {
        let back = databases.put_back(self.db, self.name)?;
        print(answer, self.db, self.name, back)?;
        Ok(())
    }
}

/// Prints the names of the database and of the backup, and the database's update sequence and life (the number that
/// each restore raises).
fn print(answer: &mut Vec<u8>, db: &str, name: &str, back: PutBack) -> Result<(), AllocError>
    ensures { OnOk result (answer.new.items ≡ answer.old.items ++ restored_line db.now name.now back) }
{
    answer.extend_from_slice(b"restored ")?;
    answer.extend_from_slice(db.as_bytes())?;
    answer.extend_from_slice(b" ")?;
    answer.extend_from_slice(name.as_bytes())?;
    push_left(answer, back)?;
    answer.extend_from_slice(b"\n")
}

/// Appends the update sequence and the life (the number that each restore raises) of a restored database.
fn push_left(answer: &mut Vec<u8>, back: PutBack) -> Result<(), AllocError>
    ensures { OnOk result (answer.new.items ≡ answer.old.items ++ left_part back) }
{
    answer.extend_from_slice(b" at ")?;
    push_number(answer, back.seq)?;
    answer.extend_from_slice(b" life ")?;
    push_number(answer, back.life)
}
