//! `doc`: prints a revision of a document with its known ancestry.
ghost use Rattle.std.specs.Prelude.{◌≡◌, ◌++◌, OnOk};
ghost use Rattle.doc_json.specs.DocText.{doc_text};
ghost use Rattle.command_api.specs.Texts.{ended};
ghost use Rattle.json_values.specs.LineView.{line_view};
ghost use Rattle.read_commands.specs.Doc.{chosen};

use command_api::{
    Command, has_only_members, name_member, optional_text, read_id, read_rev, text_member,
};
use doc_json::push_doc;
use json_values::Line;
use rev_core::Rev;
use rev_tree::Tree;
use script_databases::{Databases, Refusal};
use std::alloc::{AllocError, Global};
use std::sync::Wait;
use std::thread::Threads;

/// The parameters of a `doc` line.
#[derive(Drop)]
pub struct Doc<'a> {
    pub db: &'a str,
    pub id: &'a str,
    /// The revision to print. If the line names no revision, the command prints the winner.
    pub rev: Option<&'a str>,
}

impl<'v, 'a> Command<&'v Line<'a>> for Doc<'v> {
    ghost use Rattle.read_commands.specs.Doc.{DocAsk, PrintsDocument, doc_asked, doc_in};

    ghost seen = { λ line. line_view line.now };

    ghost Ask = { DocAsk };

    ghost asked = { doc_asked };

    ghost asked_in = { doc_in };

    ghost answers = { PrintsDocument };

    fn read(line: &'v Line<'a>) -> Option<Doc<'v>> {
        let value = line.value();
        let db = name_member(value, "db")?;
        let id = text_member(value, "id")?;
        let rev = optional_text(value, "rev")?;
        if !has_only_members(value, &["do", "db", "id", "rev"]) {
            return None;
        }
        Some(Doc { db, id, rev })
    }

    /// Runs `doc`.
    fn serve<H: Threads + Wait + Sync>(
        &self,
        _rt: &H,
        alloc: Global,
        databases: &mut Databases,
        answer: &mut Vec<u8>,
    ) -> Result<(), Refusal> {
        let Some(peer) = databases.find(self.db) else {
            return Err(Refusal::NoDatabase);
        };
        let id = read_id(alloc, self.id)?;
        let named = read_rev(self.rev)?;
        let Some(tree) = peer.db().tree(&id) else {
            return Err(Refusal::NoSuchDocument);
        };
        let Some(rev) = chosen(tree, named) else {
            return Err(Refusal::NoSuchRevision);
        };
        let found = peer.db().document(alloc, &id, rev)?;
        let Some(document) = found else {
            return Err(Refusal::NoSuchRevision);
        };
        print(answer, &document)?;
        Ok(())
    }
}

/// Returns the revision that the line names, or the winner if the line names no revision.
fn chosen(tree: &Tree, named: Option<Rev>) -> Option<Rev>
    ensures { result ≡ chosen tree.now named }
{
    match named {
        Some(rev) => Some(rev),
        None => tree.winner(),
    }
}

/// Prints a document.
fn print(answer: &mut Vec<u8>, document: &doc_json::Doc) -> Result<(), AllocError>
    ensures { OnOk result (answer.new.items ≡ answer.old.items ++ ended (doc_text document.now)) }
{
    push_doc(answer, document)?;
    answer.push(b'\n')?;
    Ok(())
}
