//! The command `load`, which creates a database or stores a document in a database.
ghost use Rattle.std.specs.Prelude.{◌≡◌, ◌++◌, [], None, Some, OnOk, IfOk, IfErr, option_map};
ghost use Rattle.json_values.specs.LineView.{line_view};
ghost use Rattle.script_engine.specs.Serving.{MayTell};
ghost use Rattle.script_databases.specs.Databases.{IsTaken, drawn_one, next_made, peer_at};
ghost use Rattle.script_databases.specs.declared.refusal.Refusal.TheVariants.{UuidTaken};
ghost use Rattle.command_api.specs.Telling.{told_by};
ghost use Rattle.write_commands.specs.Load.{LoadsLoud, LoadsNamed, LoadsNew, document_part, load_asked, loaded_line, made_line, put_line, same_line, there_line};

use command_api::{
    Command, has_only_members, hush, name_member, optional_uuid, push_json, push_number, push_rev,
    read_document,
};
use couch_base::Put;
use doc_json::Doc;
use json_values::{Line, LinePart};
use script_databases::{Databases, Refusal};
use std::alloc::{AllocError, Global};
use std::sync::Wait;
use std::thread::Threads;

/// The parameters of a `load` line.
#[derive(Drop)]
pub struct Load<'v, 'a> {
    pub db: &'v str,
    /// The UUID of a new database, as a number.
    pub uuid: Option<u128>,
    pub doc: Option<LinePart<'v, 'a>>,
}

impl<'v, 'a> Command<&'v Line<'a>> for Load<'v, 'a> {
    ghost use Rattle.write_commands.specs.Load.{LoadAsk, Loads, load_asked, load_in};

    ghost seen = { λ line. line_view line.now };

    ghost Ask = { LoadAsk };

    ghost asked = { load_asked };

    ghost asked_in = { load_in };

    ghost answers = { Loads };

    fn read(line: &'v Line<'a>) -> Option<Load<'v, 'a>> {
        let value = line.value();
        let db = name_member(value, "db")?;
        let uuid = optional_uuid(value, "uuid")?;
        if !has_only_members(value, &["do", "db", "uuid", "doc"]) {
            return None;
        }
        let doc = line.get("doc");
        Some(Load { db, uuid, doc })
    }

    /// Runs `load`. If the program is quiet and the line succeeds, the call prints nothing.
    fn serve<H: Threads + Wait + Sync>(
        &self,
        _rt: &H,
        alloc: Global,
        databases: &mut Databases,
        answer: &mut Vec<u8>,
    ) -> Result<(), Refusal> {
        let quiet = databases.settings().quiet;
        let served = load_loud(alloc, databases, self, answer);
        hush(answer, quiet);
        served
    }
}

/// Performs a `load` line, and prints the result. Only a line that creates a database may give a UUID.
fn load_loud(
    alloc: Global,
    databases: &mut Databases,
    ask: &Load<'_, '_>,
    answer: &mut Vec<u8>,
) -> Result<(), Refusal>
    requires empty { answer.old.items ≡ [] }
    ensures { MayTell LoadsLoud databases.old (load_asked ask.now) (told_by result answer.new.items) databases.new }
{
    match ask.uuid {
        Some(uuid) => load_given(alloc, databases, ask.db, uuid, &ask.doc, answer),
        None => load_named(alloc, databases, ask.db, &ask.doc, answer),
    }
}

/// Creates a database with a given UUID. The call first checks that the name is unused, and then that the UUID is
/// unused.
fn load_given(
    alloc: Global,
    databases: &mut Databases,
    db: &str,
    uuid: u128,
    doc: &Option<LinePart<'_, '_>>,
    answer: &mut Vec<u8>,
) -> Result<(), Refusal>
    requires empty { answer.old.items ≡ [] }
    ensures { MayTell LoadsLoud databases.old
        (record { db = db.now; uuid = Some uuid; doc = option_map line_view doc.now })
        (told_by result answer.new.items) databases.new }
{
    if databases.has(db) {
        return Err(Refusal::DatabaseExists);
    }
    if databases.is_taken(uuid) {
        return Err(Refusal::UuidTaken);
    }
    match read_document(alloc, doc)? {
        None => make_empty(alloc, databases, db, uuid, answer),
        Some(document) => make_with(alloc, databases, db, uuid, &document, answer),
    }
}

/// Performs a `load` line without a UUID. If the line has a document, the call parses the document before it looks up
/// the database.
fn load_named(
    alloc: Global,
    databases: &mut Databases,
    db: &str,
    doc: &Option<LinePart<'_, '_>>,
    answer: &mut Vec<u8>,
) -> Result<(), Refusal>
    requires empty { answer.old.items ≡ [] }
    ensures { MayTell LoadsLoud databases.old
        (record { db = db.now; uuid = None; doc = option_map line_view doc.now })
        (told_by result answer.new.items) databases.new }
{
    match read_document(alloc, doc)? {
        None => open(alloc, databases, db, answer),
        Some(document) => put(alloc, databases, db, &document, answer),
    }
}

/// Creates an empty database, unless the database already exists.
fn open(
    alloc: Global,
    databases: &mut Databases,
    db: &str,
    answer: &mut Vec<u8>,
) -> Result<(), Refusal>
    requires empty { answer.old.items ≡ [] }
    ensures { MayTell LoadsNamed databases.old (record { db = db.now; doc = None })
        (told_by result answer.new.items) databases.new }
{
    if databases.has(db) {
        print_there(answer, db)?;
        return Ok(());
    }
    let uuid = draw_free(databases)?;
    make_empty(alloc, databases, db, uuid, answer)
}

/// Stores a document in an existing or a new database.
///
/// A successful put looks up the database only once. If the put fails, the call looks up the database again.
fn put(
    alloc: Global,
    databases: &mut Databases,
    db: &str,
    document: &Doc,
    answer: &mut Vec<u8>,
) -> Result<(), Refusal>
    requires empty { answer.old.items ≡ [] }
    ensures { MayTell LoadsNamed databases.old (record { db = db.now; doc = Some document.now })
        (told_by result answer.new.items) databases.new }
{
    match databases.load(db, document) {
        Ok(put) => {
            print_put(answer, db, document, put)?;
            Ok(())
        }
        Err(refusal) => {
            if databases.has(db) {
                return Err(refusal);
            }
            put_new(alloc, databases, db, document, answer)
        }
    }
}

/// Stores a document in a new database.
fn put_new(
    alloc: Global,
    databases: &mut Databases,
    db: &str,
    document: &Doc,
    answer: &mut Vec<u8>,
) -> Result<(), Refusal>
    requires empty { answer.old.items ≡ [] }
    requires absent { peer_at databases.old db.now ≡ None }
    ensures { MayTell LoadsNamed databases.old (record { db = db.now; doc = Some document.now })
        (told_by result answer.new.items) databases.new }
{
    let uuid = draw_free(databases)?;
    make_with(alloc, databases, db, uuid, document, answer)
}

/// Generates a UUID for a new database.
///
/// # Errors
///
/// `UuidTaken` if a database has that UUID.
fn draw_free(databases: &mut Databases) -> Result<u128, Refusal>
    ensures drawn { databases.new ≡ drawn_one databases.old }
    ensures ok { IfOk result
        (λ uuid. (uuid ≡ next_made databases.old) × (IsTaken (drawn_one databases.old) uuid → ⊥)) }
    ensures err { IfErr result
        (λ why. (why ≡ UuidTaken) × IsTaken (drawn_one databases.old) (next_made databases.old)) }
{
    let uuid = databases.draw();
    if databases.is_taken(uuid) {
        return Err(Refusal::UuidTaken);
    }
    Ok(uuid)
}

/// Creates an empty database.
fn make_empty(
    alloc: Global,
    databases: &mut Databases,
    db: &str,
    uuid: u128,
    answer: &mut Vec<u8>,
) -> Result<(), Refusal>
    requires empty { answer.old.items ≡ [] }
    requires absent { peer_at databases.old db.now ≡ None }
    requires fresh { IsTaken databases.old uuid → ⊥ }
    ensures { MayTell LoadsNew databases.old (record { db = db.now; uuid = uuid; doc = None })
        (told_by result answer.new.items) databases.new }
{
    let peer = databases.make(alloc, uuid)?;
    databases.add(alloc, db, peer)?;
    print_made(answer, db)?;
    Ok(())
}

/// Creates a database and stores a document in the new database.
fn make_with(
    alloc: Global,
    databases: &mut Databases,
    db: &str,
    uuid: u128,
    document: &Doc,
    answer: &mut Vec<u8>,
) -> Result<(), Refusal>
    requires empty { answer.old.items ≡ [] }
    requires absent { peer_at databases.old db.now ≡ None }
    requires fresh { IsTaken databases.old uuid → ⊥ }
    ensures { MayTell LoadsNew databases.old (record { db = db.now; uuid = uuid; doc = Some document.now })
        (told_by result answer.new.items) databases.new }
{
    let mut peer = databases.make(alloc, uuid)?;
    let put = peer.load(document)?;
    databases.add(alloc, db, peer)?;
    print_put(answer, db, document, put)?;
    Ok(())
}

/// Prints that a database was created.
fn print_made(answer: &mut Vec<u8>, db: &str) -> Result<(), AllocError>
    ensures { OnOk result (answer.new.items ≡ answer.old.items ++ made_line db.now) }
{
    answer.extend_from_slice(b"made ")?;
    answer.extend_from_slice(db.as_bytes())?;
    answer.push(b'\n')?;
    Ok(())
}

/// Prints that a database already exists.
fn print_there(answer: &mut Vec<u8>, db: &str) -> Result<(), AllocError>
    ensures { OnOk result (answer.new.items ≡ answer.old.items ++ there_line db.now) }
{
    answer.extend_from_slice(b"there ")?;
    answer.extend_from_slice(db.as_bytes())?;
    answer.push(b'\n')?;
    Ok(())
}

/// Prints the result of a put.
fn print_put(answer: &mut Vec<u8>, db: &str, document: &Doc, put: Put) -> Result<(), AllocError>
    ensures { OnOk result (answer.new.items ≡ answer.old.items ++ put_line db.now document.now put) }
{
    match put {
        Put::Changed { seq } => print_loaded(answer, db, document, seq),
        Put::Same => print_same(answer, db, document),
    }
}

/// Prints that a put changed the document.
fn print_loaded(answer: &mut Vec<u8>, db: &str, document: &Doc, seq: u64) -> Result<(), AllocError>
    ensures { OnOk result (answer.new.items ≡ answer.old.items ++ loaded_line db.now document.now seq) }
{
    answer.extend_from_slice(b"loaded ")?;
    answer.extend_from_slice(db.as_bytes())?;
    answer.push(b' ')?;
    push_document(answer, document)?;
    answer.extend_from_slice(b" seq ")?;
    push_number(answer, seq)?;
    answer.push(b'\n')?;
    Ok(())
}

/// Prints that a put changed nothing.
fn print_same(answer: &mut Vec<u8>, db: &str, document: &Doc) -> Result<(), AllocError>
    ensures { OnOk result (answer.new.items ≡ answer.old.items ++ same_line db.now document.now) }
{
    answer.extend_from_slice(b"same ")?;
    answer.extend_from_slice(db.as_bytes())?;
    answer.push(b' ')?;
    push_document(answer, document)?;
    answer.push(b'\n')?;
    Ok(())
}

/// Appends a document's id and its newest revision.
fn push_document(answer: &mut Vec<u8>, document: &Doc) -> Result<(), AllocError>
    ensures { OnOk result (answer.new.items ≡ answer.old.items ++ document_part document.now) }
{
    let rev = document.ancestry().head();
    push_json(answer, document.id().text())?;
    answer.push(b' ')?;
    push_rev(answer, &rev)
}
