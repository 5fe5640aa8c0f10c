//! Produces the remaining pieces of a command's output (docs/PROFILE.md, "Answers").
ghost use Rattle.std.specs.Prelude.{◌≡◌, ◌++◌, ◌<◌, ◌≤◌, [], length, true, if◌then◌else◌, OnOk, IfOk};
ghost use Rattle.read_commands.specs.Rest.{FitsRest, rest_left};

use crate::compare::CompareRest;
use crate::conflicts::ConflictsRest;
use crate::docs::DocsRest;
use script_databases::Databases;
use std::alloc::{AllocError, Global};

/// The part of a command's output that is still to be produced. A `Rest` has the names of the databases that it reads,
/// and does not borrow the databases. The variants of `Rest` are boxed to keep the type small, because the result of
/// every script line has space for a `Rest`.
#[derive(Drop)]
pub enum Rest {
    Compare(Box<CompareRest>),
    Conflicts(Box<ConflictsRest>),
    Docs(Box<DocsRest>),
}

impl Rest {
    /// Appends output to a piece until the piece has at least 65,536 bytes or the output ends. Returns whether more of
    /// the command's output is left.
    pub fn more(
        &mut self,
        alloc: Global,
        databases: &Databases,
        piece: &mut Vec<u8>,
    ) -> Result<bool, AllocError>
        requires fits { FitsRest databases.now self.old }
        ensures piece { IfOk result
            (λ more. piece.new.items ++ (if more then rest_left databases.now self.new else [])
            ≡ piece.old.items ++ rest_left databases.now self.old) }
        ensures some { IfOk result (λ more. more ≡ true → (65536 ≤ length piece.new.items)
            × (0 < length (rest_left databases.now self.new))) }
        ensures fits { OnOk result (FitsRest databases.now self.new) }
    {
        match self {
            Rest::Compare(rest) => rest.more(alloc, databases, piece),
            Rest::Conflicts(rest) => rest.more(alloc, databases, piece),
            Rest::Docs(rest) => rest.more(alloc, databases, piece),
        }
    }
}
