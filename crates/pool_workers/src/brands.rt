//! Brands are type parameters with ghost members, which are values that exist only in proofs. A run has one brand for
//! its source and one for its target. The ghost members of a brand state facts about the source or the target.
//! `repl_pool` chooses both brands when it starts a run. This choice fixes the source and the target to which the
//! contracts of the run refer.
//!
//! For a value in a lock or a channel, contracts know only the invariant of the value's type. If the type has a brand
//! as parameter, the type's invariant may refer to the brand's ghost members.
use std::marker::Brand;

/// A type parameter for proofs that names two values: the source's database, and the plan of the run.
pub trait SourceBrand {
    ghost use Rattle.couch_base.specs.Database.{DatabaseValue};
    ghost use Rattle.repl_target.specs.declared.replication.Plan.{Plan};

    ghost source: { DatabaseValue };

    ghost plan: { Plan };
}

impl SourceBrand for Brand {
    ghost use Rattle.couch_base.specs.Database.{no_documents};
    ghost use Rattle.std.specs.Prelude.{None};

    ghost source = { no_documents 0 };

    ghost plan = { record {
      session = record { 0 = 0 };
      workers = 0;
      batch = 0;
      stop_after = None;
      at = 0;
      chosen = None;
    } };
}

/// A type parameter for proofs that names two values: the target before the run, and the session of the run.
pub trait TargetBrand<F> {
    ghost use Rattle.std.specs.Prelude.{Option};
    ghost use Rattle.repl_peer.specs.peer.Peer.{PeerValue};
    ghost use Rattle.rev_tree.specs.declared.origin.SessionId.{SessionId};

    ghost given: { Option ((F × PeerValue) × SessionId) };
}

impl<F> TargetBrand<F> for Brand {
    ghost use Rattle.std.specs.Prelude.{None};

    ghost given = { None };
}
