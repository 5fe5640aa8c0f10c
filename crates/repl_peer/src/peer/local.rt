//! Local writes.
ghost use Rattle.std.specs.Prelude.{◌≡◌, ◌<◌, ◌≤◌, None, length, OnOk, OnErr};
ghost use Rattle.rev_tree.specs.declared.origin.Origin.TheVariants.{Local};
ghost use Rattle.couch_base.specs.Database.{most, tree_in};
ghost use Rattle.couch_base.specs.Put.{put_answer, after_put, PutGives};
ghost use Rattle.couch_base.specs.Edit.{edit_answer, after_edit, EditGives};
ghost use Rattle.repl_peer.specs.peer.Local.{with_load, with_edit, stood_on};

use crate::peer::ghost_writes::GhostWrites;
use couch_base::{BaseFault, Database, Put};
use doc_json::{Body, Doc, DocId};
use rev_core::Rev;
use rev_tree::Origin;
use std::marker::Model;

/// The local writes of a peer. At run time, a `Locals` is only the number of local writes. In contracts, a `Locals` is
/// the list of local writes.
#[derive(Drop)]
pub(crate) struct Locals {
    count: u64,
    writes: GhostWrites,
}

impl Model for Locals {
    ghost use Rattle.std.specs.Prelude.{◌≡◌, List, length};
    ghost use Rattle.std.specs.Coded.{coded_list};
    ghost use Rattle.repl_peer.specs.peer.Peer.{WrittenValue};
    ghost use Rattle.repl_peer.specs.peer.PeerCode.{coded_written};

    ghost Value = { List WrittenValue };

    ghost coded = { coded_list coded_written };

    ghost view = { λ l. l.writes.list };

    ghost invariant = { λ l. length l.writes.list ≡ l.count };
}

impl Locals {
    ghost use Rattle.std.specs.Prelude.{[], ◌∷◌, ◌++◌};

    /// Creates an empty list of local writes.
    pub(crate) fn new() -> Locals
        ensures { result ≡ [] }
    {
        Locals {
            count: 0,
            writes: GhostWrites::new(),
        }
    }

    /// Copies the local writes.
    pub(crate) fn copy(&self) -> Locals
        ensures { result ≡ self.now }
    {
        Locals {
            count: self.count,
            writes: self.writes.copy(),
        }
    }

    /// Returns the number of local writes.
    pub(crate) fn count(&self) -> u64
        ensures { result ≡ length self.now }
    {
        self.count
    }

    /// Adds a local write, which has the given revisions of a document, newest first.
    fn add(&mut self, id: &DocId, revs: &[Rev])
        requires { length self.old < most }
        ensures { self.new ≡ self.old ++ record { id = id.now; ancestry = revs.now } ∷ [] }
    {
        self.writes = self.writes.and(id, revs);
        self.count += 1;
    }
}

/// Stores a user's document in the database. If the put changes the database, the call adds the put to the local
/// writes.
///
/// The clause `counted` bounds the number of local writes by the database's update sequence, because each local write
/// takes a sequence. The number of local writes therefore fits into 64 bits.
pub(crate) fn load(db: &mut Database, locals: &mut Locals, doc: &Doc) -> Result<Put, BaseFault>
    requires counted { length locals.old ≤ db.old.update_seq }
    ensures answer { PutGives result (put_answer db.old doc.now) }
    ensures db { OnOk result (db.new ≡ after_put db.old doc.now (Local (length locals.old))) }
    ensures locals { OnOk result (locals.new ≡ with_load db.old locals.old doc.now) }
    ensures db_kept { OnErr result (db.new ≡ db.old) }
    ensures locals_kept { OnErr result (locals.new ≡ locals.old) }
    ensures counted { length locals.new ≤ db.new.update_seq }
{
    let put = db.put(doc, Origin::Local(locals.count()))?;
    if let Put::Changed { .. } = put {
        locals.add(doc.id(), doc.ancestry().revs());
    }
    Ok(put)
}

/// Edits a document, and adds the edit to the local writes.
pub(crate) fn edit(
    db: &mut Database,
    locals: &mut Locals,
    id: &DocId,
    parent: Option<Rev>,
    deleted: bool,
    body: &Body,
) -> Result<Rev, BaseFault>
    requires counted { length locals.old ≤ db.old.update_seq }
    ensures answer { EditGives result (edit_answer db.old id.now parent deleted body.now) }
    ensures db { OnOk result (db.new ≡ after_edit db.old id.now parent deleted body.now (Local (length locals.old))) }
    ensures locals { OnOk result (locals.new ≡ with_edit db.old locals.old id.now parent deleted body.now) }
    ensures db_kept { OnErr result (db.new ≡ db.old) }
    ensures locals_kept { OnErr result (locals.new ≡ locals.old) }
    ensures counted { length locals.new ≤ db.new.update_seq }
{
    let before = match parent {
        Some(parent) => Some(parent),
        None => winner(db, id),
    };
    let rev = db.edit(id, parent, deleted, body, Origin::Local(locals.count()))?;
    match before {
        Some(before) => locals.add(id, &[rev, before]),
        None => locals.add(id, &[rev]),
    }
    Ok(rev)
}

/// Returns the winner of a document, or `None` if the document does not exist.
fn winner(db: &Database, id: &DocId) -> Option<Rev>
    ensures { result ≡ stood_on (tree_in db.now.docs id.now) None }
{
    match db.tree(id) {
        Some(tree) => tree.winner(),
        None => None,
    }
}
