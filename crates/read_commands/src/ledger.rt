//! The command `ledger`, which prints the documents that the target refused in a session, with the reasons.
ghost use Rattle.std.specs.Prelude.{◌≡◌, ◌++◌, OnOk};
ghost use Rattle.std.specs.List.{flat_map};
ghost use Rattle.json_values.specs.LineView.{line_view};
ghost use Rattle.read_commands.specs.Ledger.{contradicted_line, denied_line, ledger_text, parents_part, refused_line, rev_part};
ghost use Rattle.rev_core.specs.Text.{rev_text};

use command_api::{
    Command, has_only_members, name_member, optional_uuid, push_count, push_json, push_rev,
};
use json_values::Line;
use repl_inspect::{LedgerRow, ledger_row};
use repl_target::Refused;
use rev_core::Rev;
use rev_tree::SessionId;
use script_databases::{Databases, Refusal};
use std::alloc::{AllocError, Global};
use std::sync::Wait;
use std::thread::Threads;

/// The parameters of a `ledger` line.
#[derive(Drop)]
pub struct Ledger<'a> {
    pub target: &'a str,
    /// The session id, which is a UUID as a number.
    pub session: u128,
}

impl<'v, 'a> Command<&'v Line<'a>> for Ledger<'v> {
    ghost use Rattle.read_commands.specs.Ledger.{LedgerAsk, ListsLedger, ledger_asked, ledger_in};

    ghost seen = { λ line. line_view line.now };

    ghost Ask = { LedgerAsk };

    ghost asked = { ledger_asked };

    ghost asked_in = { ledger_in };

    ghost answers = { ListsLedger };

    fn read(line: &'v Line<'a>) -> Option<Ledger<'v>> {
        let value = line.value();
        let target = name_member(value, "target")?;
        let given = optional_uuid(value, "session")?;
        let session = given?;
        if !has_only_members(value, &["do", "target", "session"]) {
            return None;
        }
        Some(Ledger { target, session })
    }

    /// Runs `ledger`.
    fn serve<H: Threads + Wait + Sync>(
        &self,
        _rt: &H,
        _alloc: Global,
        databases: &mut Databases,
        answer: &mut Vec<u8>,
    ) -> Result<(), Refusal> {
        let Some(peer) = databases.find(self.target) else {
            return Err(Refusal::NoDatabase);
        };
        let Some(rows) = peer.ledger(SessionId(self.session)) else {
            return Err(Refusal::NoSuchSession);
        };
        print(answer, rows)?;
        Ok(())
    }
}

/// Prints the rows of a session's ledger, and the number of rows.
fn print(answer: &mut Vec<u8>, rows: &[Refused]) -> Result<(), AllocError>
    ensures { OnOk result (answer.new.items ≡ answer.old.items ++ ledger_text rows.now) }
{
    push_rows(answer, rows)?;
    answer.extend_from_slice(b"ledger ")?;
    push_count(answer, rows.len())?;
    answer.extend_from_slice(b"\n")
}

/// Prints the rows of a session's ledger.
fn push_rows(answer: &mut Vec<u8>, rows: &[Refused]) -> Result<(), AllocError>
    ensures { OnOk result (answer.new.items ≡ answer.old.items ++ flat_map refused_line rows.now) }
{
    for row in rows {
        push_refused(answer, row)?;
    }
    Ok(())
}

/// Prints a refused document, and the reason why the target refused the document.
fn push_refused(answer: &mut Vec<u8>, refused: &Refused) -> Result<(), AllocError>
    ensures { OnOk result (answer.new.items ≡ answer.old.items ++ refused_line refused.now) }
{
    let id = refused.doc().id().text();
    match ledger_row(refused) {
        LedgerRow::Denied { rev } => push_denied(answer, id, rev),
        LedgerRow::Contradicted { rev, known, given } => {
            push_contradicted(answer, id, rev, known, given)
        }
    }
}

/// Prints a document that the write filter refused.
fn push_denied(answer: &mut Vec<u8>, id: &str, rev: Rev) -> Result<(), AllocError>
    ensures { OnOk result (answer.new.items ≡ answer.old.items ++ denied_line id.now (rev_text rev)) }
{
    push_rev_of(answer, b"denied", id, rev)?;
    answer.extend_from_slice(b"\n")
}

/// Prints a document that was refused because one of its revisions has another parent in the target's tree.
fn push_contradicted(
    answer: &mut Vec<u8>,
    id: &str,
    rev: Rev,
    known: Rev,
    given: Rev,
) -> Result<(), AllocError>
    ensures { OnOk result (answer.new.items ≡ answer.old.items
        ++ contradicted_line id.now (rev_text rev) (rev_text known) (rev_text given)) }
{
    push_rev_of(answer, b"contradicted", id, rev)?;
    push_parents(answer, known, given)?;
    answer.extend_from_slice(b"\n")?;
    Ok(())
}

/// Appends a keyword, a document id and a revision.
fn push_rev_of(answer: &mut Vec<u8>, word: &[u8], id: &str, rev: Rev) -> Result<(), AllocError>
    ensures { OnOk result (answer.new.items ≡ answer.old.items ++ rev_part word.now id.now (rev_text rev)) }
{
    answer.extend_from_slice(word)?;
    answer.extend_from_slice(b" ")?;
    push_json(answer, id)?;
    answer.extend_from_slice(b" ")?;
    push_rev(answer, &rev)
}

/// Appends a revision's parent in the target's tree, and the revision's parent in the refused document.
fn push_parents(answer: &mut Vec<u8>, known: Rev, given: Rev) -> Result<(), AllocError>
    ensures { OnOk result (answer.new.items ≡ answer.old.items ++ parents_part (rev_text known) (rev_text given)) }
{
    answer.extend_from_slice(b" known ")?;
    push_rev(answer, &known)?;
    answer.extend_from_slice(b" given ")?;
    push_rev(answer, &given)
}
