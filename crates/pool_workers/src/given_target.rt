//! Facts about the run's target that a thread knows without taking the target's lock.
ghost use Rattle.std.specs.Prelude.{◌≡◌, ◌==◌, [], Some, length, is_some, IfOk, IfSome};
ghost use Rattle.std.specs.Option.{ForSome};
ghost use Rattle.couch_base.specs.Database.{DatabaseValue};
ghost use Rattle.couch_base.specs.Messages.{revs_diff};

use crate::brands::{SourceBrand, TargetBrand};
use crate::messages::Paged;
use couch_base::{Asked, Database};
use repl_target::{Peer, WriteFilter};
use rev_tree::SessionId;
use std::alloc::{AllocError, Global};
use std::marker::PhantomData;

/// Facts about the target at the start of the run. The field `none` has an empty database if the target's update
/// sequence was 0, and is otherwise `None`. A target with the update sequence 0 has no documents.
#[derive(Drop)]
pub struct GivenTarget<F: WriteFilter, T: TargetBrand<F>> {
    none: Option<Database>,
    filter: PhantomData<F>,
    given: PhantomData<T>,
    ghost empty: { ForSome none (λ db. (length db.docs ≡ 0) × ForSome T.given (λ g. length g.0.1.db.docs ≡ 0)) },
}

impl<F: WriteFilter, T: TargetBrand<F>> GivenTarget<F, T> {
    /// Examines the given target.
    pub fn of(alloc: Global, target: &Peer<F>, _session: SessionId) -> GivenTarget<F, T>
        requires { T.given ≡ Some (target.now, _session) }
        ensures { is_some result.none ≡ (target.now.1.db.update_seq == 0) }
    {
        let db = target.db();
        let none = if db.update_seq() == 0 {
            Some(Database::new(alloc, db.uuid()))
        } else {
            None
        };
        GivenTarget {
            none,
            filter: PhantomData,
            given: PhantomData,
        }
    }

    /// Returns the request for all leaves of a page if the target's update sequence was 0 at the start of the run. A
    /// target with the update sequence 0 has no documents, and therefore lacks all leaves. The method `diff` does not
    /// lock the target. Returns `None` if the target's update sequence was not 0.
    pub fn diff<S: SourceBrand>(
        &self,
        alloc: Global,
        page: &Paged<S>,
    ) -> Option<Result<Asked, AllocError>>
        ensures some { is_some result ≡ is_some self.now.none }
        ensures given { IfSome result
            (λ r. IfOk r (λ asked. IfSome T.given (λ g. asked ≡ revs_diff g.0.1.db page.now))) }
        ensures whole { IfSome result
            (λ r. IfOk r
            (λ asked. (db : DatabaseValue) × (db.docs ≡ []) × (asked ≡ revs_diff db page.now))) }
    {
        match &self.none {
            Some(none) => Some(none.revs_diff(alloc, page.window())),
            None => None,
        }
    }
}
