//! `audit`: checks that the target covers every leaf of the source's selected feed up to the common checkpoint.
ghost use Rattle.std.specs.Prelude.{◌≡◌, ◌++◌, OnOk};
ghost use Rattle.repl_target.specs.Audit.{hole_of};
ghost use Rattle.json_values.specs.LineView.{line_view};
ghost use Rattle.read_commands.specs.Audit.{audit_text, hole_line};

use command_api::{
    Command, has_only_members, name_member, optional_texts, push_json, push_number, push_rev,
    read_choice,
};
use json_values::{Line, LineValue};
use repl_target::{Audit as Found, audit};
use rev_core::Rev;
use script_databases::{Databases, Refusal};
use std::alloc::{AllocError, Global};
use std::sync::Wait;
use std::thread::Threads;

/// The parameters of an `audit` line.
#[derive(Drop)]
pub struct Audit<'v, 'a> {
    pub source: &'v str,
    pub target: &'v str,
    /// The ids of the selected documents, which are strings. If the line gives no ids, all documents are selected.
    pub doc_ids: Option<&'v [LineValue<'a>]>,
}

impl<'v, 'a> Command<&'v Line<'a>> for Audit<'v, 'a> {
    ghost use Rattle.read_commands.specs.Audit.{AuditAsk, Audits, audit_asked, audit_in};

    ghost seen = { λ line. line_view line.now };

    ghost Ask = { AuditAsk };

    ghost asked = { audit_asked };

    ghost asked_in = { audit_in };

    ghost answers = { Audits };

    fn read(line: &'v Line<'a>) -> Option<Audit<'v, 'a>> {
        let value = line.value();
        let source = name_member(value, "source")?;
        let target = name_member(value, "target")?;
        let doc_ids = optional_texts(value, "doc_ids")?;
        if !has_only_members(value, &["do", "source", "target", "doc_ids"]) {
            return None;
        }
        Some(Audit {
            source,
            target,
            doc_ids,
        })
    }

    /// Runs `audit`.
    fn serve<H: Threads + Wait + Sync>(
        &self,
        _rt: &H,
        alloc: Global,
        databases: &mut Databases,
        answer: &mut Vec<u8>,
    ) -> Result<(), Refusal> {
        let Some(source) = databases.find(self.source) else {
            return Err(Refusal::NoDatabase);
        };
        let Some(target) = databases.find(self.target) else {
            return Err(Refusal::NoDatabase);
        };
        let chosen = read_choice(alloc, self.doc_ids)?;
        let found = audit(alloc, source, target, chosen.as_ref())?;
        print(answer, found)?;
        Ok(())
    }
}

/// Prints the result of an audit.
fn print(answer: &mut Vec<u8>, found: Found) -> Result<(), AllocError>
    ensures { OnOk result (answer.new.items ≡ answer.old.items ++ audit_text (hole_of found)) }
{
    match found {
        Found::Clean => answer.extend_from_slice(b"clean\n"),
        Found::Hole { seq, id, rev } => push_hole(answer, seq, id.text(), rev),
    }
}

/// Prints a leaf that the target does not cover.
fn push_hole(answer: &mut Vec<u8>, seq: u64, id: &str, rev: Rev) -> Result<(), AllocError>
    ensures { OnOk result
        (answer.new.items ≡ answer.old.items ++ hole_line (record { seq = seq; id = id.now; rev = rev })) }
{
    answer.extend_from_slice(b"hole ")?;
    push_number(answer, seq)?;
    answer.extend_from_slice(b" ")?;
    push_json(answer, id)?;
    answer.extend_from_slice(b" ")?;
    push_rev(answer, &rev)?;
    answer.extend_from_slice(b"\n")
}
