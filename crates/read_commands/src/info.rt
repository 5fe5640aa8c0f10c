//! `info`: prints the identity and the counts of a database.
ghost use Rattle.std.specs.Prelude.{◌≡◌, ◌++◌, OnOk};
ghost use Rattle.json_values.specs.LineView.{line_view};
ghost use Rattle.read_commands.specs.Info.{census_part, documents_part, identity_part, info_text, leaves_part, sessions_part};

use command_api::{Command, has_only_members, id_text, name_member, push_count, push_number};
use couch_base::Database;
use json_values::Line;
use repl_inspect::{Census, census_of};
use repl_target::{Peer, Rules};
use script_databases::{Databases, Refusal};
use std::alloc::{AllocError, Global};
use std::sync::Wait;
use std::thread::Threads;

/// The parameters of an `info` line.
#[derive(Drop)]
pub struct Info<'a> {
    pub db: &'a str,
}

impl<'v, 'a> Command<&'v Line<'a>> for Info<'v> {
    ghost use Rattle.read_commands.specs.Info.{InfoAsk, Informs, info_asked, info_in};

    ghost seen = { λ line. line_view line.now };

    ghost Ask = { InfoAsk };

    ghost asked = { info_asked };

    ghost asked_in = { info_in };

    ghost answers = { Informs };

    fn read(line: &'v Line<'a>) -> Option<Info<'v>> {
        let value = line.value();
        let db = name_member(value, "db")?;
        if !has_only_members(value, &["do", "db"]) {
            return None;
        }
        Some(Info { db })
    }

    /// Runs `info`.
    fn serve<H: Threads + Wait + Sync>(
        &self,
        _rt: &H,
        alloc: Global,
        databases: &mut Databases,
        answer: &mut Vec<u8>,
    ) -> Result<(), Refusal> {
        let Some(peer) = databases.find(self.db) else {
            return Err(Refusal::NoDatabase);
        };
        print(alloc, answer, self.db, peer)?;
        Ok(())
    }
}

/// Prints the identity and the counts of a database.
fn print(
    alloc: Global,
    answer: &mut Vec<u8>,
    name: &str,
    peer: &Peer<Rules>,
) -> Result<(), AllocError>
    ensures { OnOk result (answer.new.items ≡ answer.old.items ++ info_text name.now peer.now.1) }
{
    let database = peer.db();
    let census = census_of(alloc, database)?;
    push_identity(alloc, answer, name, database)?;
    push_census(answer, &census)?;
    push_sessions(answer, peer.session_count())?;
    Ok(())
}

/// Appends the number of sessions in which the database is the target, and ends the line.
fn push_sessions(answer: &mut Vec<u8>, count: usize) -> Result<(), AllocError>
    ensures { OnOk result (answer.new.items ≡ answer.old.items ++ sessions_part count) }
{
    answer.extend_from_slice(b" sessions ")?;
    push_count(answer, count)?;
    answer.extend_from_slice(b"\n")
}

/// Appends a database's name, UUID, update sequence and life (the number that each restore of the database raises).
fn push_identity(
    alloc: Global,
    answer: &mut Vec<u8>,
    name: &str,
    database: &Database,
) -> Result<(), AllocError>
    ensures { OnOk result (answer.new.items ≡ answer.old.items ++ identity_part name.now database.now) }
{
    let uuid = id_text(alloc, database.uuid())?;
    answer.extend_from_slice(b"info ")?;
    answer.extend_from_slice(name.as_bytes())?;
    answer.extend_from_slice(b" uuid ")?;
    answer.extend_from_slice(uuid.as_bytes())?;
    answer.extend_from_slice(b" seq ")?;
    push_number(answer, database.update_seq())?;
    answer.extend_from_slice(b" life ")?;
    push_number(answer, database.life())
}

/// Appends the numbers of documents, leaves and revisions.
fn push_census(answer: &mut Vec<u8>, census: &Census) -> Result<(), AllocError>
    ensures { OnOk result (answer.new.items ≡ answer.old.items ++ census_part census.now) }
{
    push_documents(answer, census)?;
    push_leaves(answer, census)
}

/// Appends the numbers of documents and of deleted documents.
fn push_documents(answer: &mut Vec<u8>, census: &Census) -> Result<(), AllocError>
    ensures { OnOk result (answer.new.items ≡ answer.old.items ++ documents_part census.now) }
{
    answer.extend_from_slice(b" documents ")?;
    push_number(answer, census.documents)?;
    answer.extend_from_slice(b" deleted ")?;
    push_number(answer, census.deleted)
}

/// Appends the numbers of leaves, of documents in conflict, and of revisions.
fn push_leaves(answer: &mut Vec<u8>, census: &Census) -> Result<(), AllocError>
    ensures { OnOk result (answer.new.items ≡ answer.old.items ++ leaves_part census.now) }
{
    answer.extend_from_slice(b" leaves ")?;
    push_number(answer, census.leaves)?;
    answer.extend_from_slice(b" conflicts ")?;
    push_number(answer, census.conflicts)?;
    answer.extend_from_slice(b" revisions ")?;
    push_number(answer, census.revisions)
}
