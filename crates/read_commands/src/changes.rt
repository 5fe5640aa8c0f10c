//! `changes`: prints the changes feed after a sequence, page by page.
ghost use Rattle.std.specs.Prelude.{◌≡◌, ◌++◌, OnOk};
ghost use Rattle.std.specs.List.{flat_map};
ghost use Rattle.couch_base.specs.Feed.{feed};
ghost use Rattle.json_values.specs.LineView.{line_view};
ghost use Rattle.read_commands.specs.Changes.{row_line};
ghost use Rattle.command_api.specs.Texts.{last_line};

use crate::feed::{NoTally, RowPrinter, Walk, print_feed};
use command_api::{
    Command, has_only_members, name_member, optional_whole, push_json, push_last, push_number,
    push_revs,
};
use couch_base::{Database, Row};
use json_values::Line;
use script_databases::{Databases, Refusal};
use std::alloc::{AllocError, Global};
use std::sync::Wait;
use std::thread::Threads;

/// The parameters of a `changes` line.
#[derive(Drop)]
pub struct Changes<'a> {
    pub db: &'a str,
    /// The sequence after which the command lists changes.
    pub since: u64,
}

impl<'v, 'a> Command<&'v Line<'a>> for Changes<'v> {
    ghost use Rattle.read_commands.specs.Changes.{ChangesAsk, ListsChanges, changes_asked, changes_in};

    ghost seen = { λ line. line_view line.now };

    ghost Ask = { ChangesAsk };

    ghost asked = { changes_asked };

    ghost asked_in = { changes_in };

    ghost answers = { ListsChanges };

    fn read(line: &'v Line<'a>) -> Option<Changes<'v>> {
        let value = line.value();
        let db = name_member(value, "db")?;
        let since = optional_whole(value, "since")?;
        if !has_only_members(value, &["do", "db", "since"]) {
            return None;
        }
        let since = since.unwrap_or(0);
        Some(Changes { db, since })
    }

    /// Runs `changes`.
    fn serve<H: Threads + Wait + Sync>(
        &self,
        _rt: &H,
        alloc: Global,
        databases: &mut Databases,
        answer: &mut Vec<u8>,
    ) -> Result<(), Refusal> {
        let Some(peer) = databases.find(self.db) else {
            return Err(Refusal::NoDatabase);
        };
        print(alloc, answer, peer.db(), self.since)?;
        Ok(())
    }
}

/// The maximum number of feed rows that one read returns.
const PAGE: u64 = 10_000;

/// Prints the rows of a database's feed after a sequence, and the database's update sequence.
fn print(
    alloc: Global,
    answer: &mut Vec<u8>,
    database: &Database,
    since: u64,
) -> Result<(), AllocError>
    ensures { OnOk result (answer.new.items ≡ answer.old.items
        ++ (flat_map row_line (feed database.now since database.now.update_seq) ++ last_line database.now.update_seq)) }
{
    let walk = Walk {
        since,
        chosen: None,
    };
    print_feed(
        alloc,
        answer,
        database,
        walk,
        PAGE,
        &ChangeRows,
        &mut NoTally,
    )?;
    push_last(answer, database.update_seq())?;
    Ok(())
}

/// Prints rows of the feed with their leaves.
#[derive(Drop)]
struct ChangeRows;

impl RowPrinter for ChangeRows {
    ghost use Rattle.read_commands.specs.Changes.{row_line};

    type Tally = NoTally;

    ghost row_text = { λ _ row. row_line row };

    fn push_row(
        &self,
        _alloc: Global,
        answer: &mut Vec<u8>,
        row: &Row,
        _tally: &mut NoTally,
    ) -> Result<(), AllocError> {
        answer.extend_from_slice(b"change ")?;
        push_number(answer, row.seq())?;
        answer.push(b' ')?;
        push_json(answer, row.id().text())?;
        answer.push(b' ')?;
        push_revs(answer, row.leaves())?;
        answer.push(b'\n')?;
        Ok(())
    }
}
