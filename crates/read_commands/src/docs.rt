//! `docs`: prints every leaf of the documents of a database.
ghost use Rattle.std.specs.Prelude.{◌≡◌, ◌++◌, ◌<◌, ◌≤◌, [], length, true, if◌then◌else◌, IfOk, OnOk};
ghost use Rattle.std.specs.List.{flat_map};
ghost use Rattle.json_values.specs.LineView.{line_view};
ghost use Rattle.read_commands.specs.Docs.{doc_line, docs_left};

use crate::feed::{NoTally, RowPrinter, Walk, fill};
use crate::rest::Rest;
use crate::streaming_command::StreamingCommand;
use command_api::{
    has_only_members, name_member, optional_texts, optional_whole, push_last, read_choice,
};
use couch_base::{Database, Row};
use doc_json::{Doc, push_doc};
use json_values::{Line, LineValue};
use repl_inspect::documents_of;
use script_databases::{Databases, Refusal};
use std::alloc::{AllocError, Global};

/// The parameters of a `docs` line.
#[derive(Drop)]
pub struct Docs<'v, 'a> {
    pub db: &'v str,
    /// The lower limit of sequences: the command prints the documents that changed after the sequence `since`.
    pub since: u64,
    /// The ids of the selected documents, which are strings. If the line gives no ids, all documents are selected.
    pub doc_ids: Option<&'v [LineValue<'a>]>,
}

impl<'v, 'a> StreamingCommand<&'v Line<'a>> for Docs<'v, 'a> {
    ghost use Rattle.read_commands.specs.Docs.{DocsAsk, PrintsDocuments, docs_asked, docs_in};

    ghost seen = { λ line. line_view line.now };

    ghost Ask = { DocsAsk };

    ghost asked = { docs_asked };

    ghost asked_in = { docs_in };

    ghost answers = { PrintsDocuments };

    fn read(line: &'v Line<'a>) -> Option<Docs<'v, 'a>> {
        let value = line.value();
        let db = name_member(value, "db")?;
        let since = optional_whole(value, "since")?;
        let doc_ids = optional_texts(value, "doc_ids")?;
        if !has_only_members(value, &["do", "db", "since", "doc_ids"]) {
            return None;
        }
        let since = since.unwrap_or(0);
        Some(Docs { db, since, doc_ids })
    }

    fn begin(&self, alloc: Global, databases: &Databases) -> Result<Rest, Refusal> {
        let Some(_peer) = databases.find(self.db) else {
            return Err(Refusal::NoDatabase);
        };
        let chosen = read_choice(alloc, self.doc_ids)?;
        let db = String::from_str(alloc, self.db)?;
        let walk = Walk {
            since: self.since,
            chosen,
        };
        let block = Box::new(alloc, DocsRest { db, walk })?;
        Ok(Rest::Docs(block))
    }
}

/// The maximum number of feed rows that one read returns, which is small because documents can be large.
const PAGE: u64 = 16;

/// The part of the output of `docs` that is still to be printed.
#[derive(Drop)]
pub struct DocsRest {
    pub db: String,
    pub walk: Walk,
}

impl DocsRest {
    /// Appends documents until the piece of output is full. After the last document, the call appends the update
    /// sequence. Returns whether more of the command's output is left.
    pub fn more(
        &mut self,
        alloc: Global,
        databases: &Databases,
        piece: &mut Vec<u8>,
    ) -> Result<bool, AllocError>
        ensures piece { IfOk result
            (λ more. piece.new.items ++ (if more then docs_left databases.now self.new else [])
            ≡ piece.old.items ++ docs_left databases.now self.old) }
        ensures some { IfOk result (λ more. more ≡ true → (65536 ≤ length piece.new.items)
            × (0 < length (docs_left databases.now self.new))) }
    {
        let Some(peer) = databases.find(self.db.as_str()) else {
            return Ok(false);
        };
        let database = peer.db();
        let rows = DocumentRows { database };
        if fill(
            alloc,
            piece,
            database,
            &mut self.walk,
            PAGE,
            &rows,
            &mut NoTally,
        )? {
            return Ok(true);
        }
        push_last(piece, database.update_seq())?;
        Ok(false)
    }
}

/// Prints every leaf of each row's document.
#[derive(Drop)]
struct DocumentRows<'a> {
    database: &'a Database,
}

impl<'a> RowPrinter for DocumentRows<'a> {
    ghost use Rattle.read_commands.specs.Docs.{leaf_lines};

    type Tally = NoTally;

    ghost row_text = { λ p row. leaf_lines p.database.now row };

    fn push_row(
        &self,
        alloc: Global,
        answer: &mut Vec<u8>,
        row: &Row,
        _tally: &mut NoTally,
    ) -> Result<(), AllocError> {
        let documents = documents_of(alloc, self.database, row.id())?;
        push_documents(answer, documents.as_slice())
    }
}

/// Prints documents, one per line.
fn push_documents(answer: &mut Vec<u8>, documents: &[Doc]) -> Result<(), AllocError>
    ensures { OnOk result (answer.new.items ≡ answer.old.items ++ flat_map doc_line documents.now) }
{
    for document in documents {
        push_document(answer, document)?;
    }
    Ok(())
}

/// Prints a document.
fn push_document(answer: &mut Vec<u8>, document: &Doc) -> Result<(), AllocError>
    ensures { OnOk result (answer.new.items ≡ answer.old.items ++ doc_line document.now) }
{
    push_doc(answer, document)?;
    answer.extend_from_slice(b"\n")
}
