//! `edit`: adds a revision to a document, as a child of a leaf.
ghost use Rattle.std.specs.Prelude.{◌≡◌, ◌++◌, [], OnOk};
ghost use Rattle.json_values.specs.LineView.{line_view};
ghost use Rattle.write_commands.specs.Edit.{EditsLoud, edit_asked, edited_line};
ghost use Rattle.script_engine.specs.Serving.{MayTell};
ghost use Rattle.command_api.specs.Telling.{told_by};

use command_api::{
    Command, has_only_members, hush, name_member, optional_flag, optional_text, push_json,
    push_number, push_rev, read_content_or_empty, read_id, read_rev, text_member,
};
use json_values::{Line, LinePart};
use script_databases::{Databases, Edited, Refusal};
use std::alloc::{AllocError, Global};
use std::sync::Wait;
use std::thread::Threads;

/// The parameters of an `edit` line.
#[derive(Drop)]
pub struct Edit<'v, 'a> {
    pub db: &'v str,
    pub id: &'v str,
    /// The parent of the new revision.
    pub parent: Option<&'v str>,
    pub deleted: bool,
    pub body: Option<LinePart<'v, 'a>>,
}

impl<'v, 'a> Command<&'v Line<'a>> for Edit<'v, 'a> {
    ghost use Rattle.write_commands.specs.Edit.{EditAsk, Edits, edit_asked, edit_in};

    ghost seen = { λ line. line_view line.now };

    ghost Ask = { EditAsk };

    ghost asked = { edit_asked };

    ghost asked_in = { edit_in };

    ghost answers = { Edits };

    fn read(line: &'v Line<'a>) -> Option<Edit<'v, 'a>> {
        let value = line.value();
        let db = name_member(value, "db")?;
        let id = text_member(value, "id")?;
        let parent = optional_text(value, "parent")?;
        let deleted = optional_flag(value, "deleted")?;
        if !has_only_members(value, &["do", "db", "id", "parent", "deleted", "body"]) {
            return None;
        }
        let deleted = deleted.unwrap_or(false);
        let body = line.get("body");
        Some(Edit {
            db,
            id,
            parent,
            deleted,
            body,
        })
    }

    /// Runs `edit`. If the program is quiet and the edit succeeds, the call prints nothing.
    fn serve<H: Threads + Wait + Sync>(
        &self,
        _rt: &H,
        alloc: Global,
        databases: &mut Databases,
        answer: &mut Vec<u8>,
    ) -> Result<(), Refusal> {
        let quiet = databases.settings().quiet;
        let served = edit_loud(alloc, databases, self, answer);
        hush(answer, quiet);
        served
    }
}

/// Edits a document, and prints the result. The call parses the document id first, then the parent, then the body.
fn edit_loud(
    alloc: Global,
    databases: &mut Databases,
    ask: &Edit<'_, '_>,
    answer: &mut Vec<u8>,
) -> Result<(), Refusal>
    requires empty { answer.old.items ≡ [] }
    ensures { MayTell EditsLoud databases.old (edit_asked ask.now) (told_by result answer.new.items) databases.new }
{
    if !databases.has(ask.db) {
        return Err(Refusal::NoDatabase);
    }
    let id = read_id(alloc, ask.id)?;
    let parent = read_rev(ask.parent)?;
    let body = read_content_or_empty(alloc, &ask.body)?;
    let edited = databases.edit(ask.db, &id, parent, ask.deleted, &body)?;
    print(answer, ask.db, id.text(), edited)?;
    Ok(())
}

/// Prints the new revision, and the update sequence that the edit got.
fn print(answer: &mut Vec<u8>, db: &str, id: &str, edited: Edited) -> Result<(), AllocError>
    ensures { OnOk result (answer.new.items ≡ answer.old.items ++ edited_line db.now id.now edited) }
{
    answer.extend_from_slice(b"edited ")?;
    answer.extend_from_slice(db.as_bytes())?;
    answer.extend_from_slice(b" ")?;
    push_json(answer, id)?;
    answer.extend_from_slice(b" ")?;
    push_rev(answer, &edited.rev)?;
    answer.extend_from_slice(b" seq ")?;
    push_number(answer, edited.seq)?;
    answer.extend_from_slice(b"\n")
}
