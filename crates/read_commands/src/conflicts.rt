//! `conflicts`: prints the documents with two or more live leaves.
ghost use Rattle.std.specs.Prelude.{◌≡◌, ◌++◌, ◌<◌, ◌≤◌, [], length, true, if◌then◌else◌, IfOk, OnOk};
ghost use Rattle.json_values.specs.LineView.{line_view};
ghost use Rattle.read_commands.specs.Conflicts.{FitsConflicts, conflicts_left, conflicts_line};

use crate::feed::{RowPrinter, Walk, fill};
use crate::rest::Rest;
use crate::streaming_command::StreamingCommand;
use command_api::{has_only_members, name_member, push_number, push_revs_line};
use couch_base::{Database, Row};
use json_values::Line;
use repl_inspect::{Census, conflicting};
use rev_tree::Tree;
use script_databases::{Databases, Refusal};
use std::alloc::{AllocError, Global};

/// The parameters of a `conflicts` line.
#[derive(Drop)]
pub struct Conflicts<'a> {
    pub db: &'a str,
}

impl<'v, 'a> StreamingCommand<&'v Line<'a>> for Conflicts<'v> {
    ghost use Rattle.read_commands.specs.Conflicts.{ConflictsAsk, ListsConflicts, conflicts_asked, conflicts_in};

    ghost seen = { λ line. line_view line.now };

    ghost Ask = { ConflictsAsk };

    ghost asked = { conflicts_asked };

    ghost asked_in = { conflicts_in };

    ghost answers = { ListsConflicts };

    fn read(line: &'v Line<'a>) -> Option<Conflicts<'v>> {
        let value = line.value();
        let db = name_member(value, "db")?;
        if !has_only_members(value, &["do", "db"]) {
            return None;
        }
        Some(Conflicts { db })
    }

    fn begin(&self, alloc: Global, databases: &Databases) -> Result<Rest, Refusal> {
        let Some(_peer) = databases.find(self.db) else {
            return Err(Refusal::NoDatabase);
        };
        let db = String::from_str(alloc, self.db)?;
        let walk = Walk {
            since: 0,
            chosen: None,
        };
        let rest = ConflictsRest {
            db,
            walk,
            census: Census::none(),
        };
        let block = Box::new(alloc, rest)?;
        Ok(Rest::Conflicts(block))
    }
}

/// The maximum number of feed rows that one read returns.
const PAGE: u64 = 100;

/// The part of the output of `conflicts` that is still to be printed, and the counts of the documents that were read.
#[derive(Drop)]
pub struct ConflictsRest {
    pub db: String,
    pub walk: Walk,
    pub census: Census,
}

impl ConflictsRest {
    /// Appends documents in conflict to `piece`, until `piece` has at least 65,536 bytes or all documents are appended.
    /// After the last document, the call appends the number of documents in conflict. Returns whether more of the
    /// command's output is left.
    pub fn more(
        &mut self,
        alloc: Global,
        databases: &Databases,
        piece: &mut Vec<u8>,
    ) -> Result<bool, AllocError>
        requires fits { FitsConflicts databases.now self.old }
        ensures piece { IfOk result
            (λ more. piece.new.items ++ (if more then conflicts_left databases.now self.new else [])
            ≡ piece.old.items ++ conflicts_left databases.now self.old) }
        ensures some { IfOk result (λ more. more ≡ true → (65536 ≤ length piece.new.items)
            × (0 < length (conflicts_left databases.now self.new))) }
        ensures fits { OnOk result (FitsConflicts databases.now self.new) }
    {
        let Some(peer) = databases.find(self.db.as_str()) else {
            return Ok(false);
        };
        let database = peer.db();
        database.law();
        let rows = ConflictRows { database };
        let walk = &mut self.walk;
        if fill(alloc, piece, database, walk, PAGE, &rows, &mut self.census)? {
            return Ok(true);
        }
        push_counts(piece, &self.census)?;
        Ok(false)
    }
}

/// Prints the number of documents in conflict.
fn push_counts(answer: &mut Vec<u8>, census: &Census) -> Result<(), AllocError>
    ensures { OnOk result (answer.new.items ≡ answer.old.items ++ conflicts_line census.now) }
{
    answer.extend_from_slice(b"conflicts ")?;
    push_number(answer, census.conflicts)?;
    answer.extend_from_slice(b" of ")?;
    push_number(answer, census.documents)?;
    answer.extend_from_slice(b" documents\n")
}

/// Prints each document in conflict with the document's live leaves. Counts the documents of all rows, including the
/// documents that are not in conflict.
#[derive(Drop)]
struct ConflictRows<'a> {
    database: &'a Database,
}

impl<'a> RowPrinter for ConflictRows<'a> {
    ghost use Rattle.std.specs.Prelude.{◌≡◌, map};
    ghost use Rattle.couch_base.specs.Database.{tree_of};
    ghost use Rattle.repl_inspect.specs.Censuses.{census_of};
    ghost use Rattle.read_commands.specs.Conflicts.{conflict_line};

    type Tally = Census;

    ghost row_text = { λ p row. conflict_line p.database.now row };

    ghost counts = { λ p census rows. census ≡ census_of (map (λ r. tree_of p.database.now.docs r.id) rows) };

    fn push_row(
        &self,
        alloc: Global,
        answer: &mut Vec<u8>,
        row: &Row,
        tally: &mut Census,
    ) -> Result<(), AllocError> {
        let Some(tree) = self.database.tree(row.id()) else {
            return tally.add(alloc, &Tree::new(alloc));
        };
        let leaves = conflicting(alloc, tree)?;
        push_revs_line(answer, b"conflict", row.id().text(), leaves.as_slice())?;
        tally.add(alloc, tree)
    }
}
