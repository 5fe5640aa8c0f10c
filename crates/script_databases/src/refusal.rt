//! The errors of lines.
ghost use Rattle.std.specs.Prelude.{◌≡◌};
ghost use Rattle.script_databases.specs.declared.refusal.Refusal.TheVariants.{Memory};
ghost use Rattle.script_databases.specs.Refusals.{name_of, base_refusal, doc_refusal, log_refusal, rev_refusal, run_stop_of, stop_of, target_refusal};

use couch_base::BaseFault;
use doc_json::DocFault;
use repl_log::LogFault;
use repl_pool::PoolFault;
use repl_target::TargetFault;
use rev_core::RevFault;
use std::alloc::{AllocError, AllocFailed};

/// The reason why a line failed (docs/PROFILE.md, "Order of checks"). The method `name` returns the printed name of the
/// error. Some variants exist only so that each error of a lower crate has a name. No script line is expected to fail
/// with a variant that only names an error of a lower crate.
#[derive(Clone, Copy, Debug, PartialEq, Eq)]
pub enum Refusal {
    /// A window is already done. No script line is expected to fail with `AlreadyDone`.
    AlreadyDone,
    /// A document has attachments.
    Attachments,
    /// A batch size is not 1 to 10,000.
    BadBatch,
    /// The object is not a command, because the name, a member or a type is wrong.
    BadCommand,
    /// A revision id has no generation.
    BadGeneration,
    /// A page of the changes feed with a maximum of 0 rows was requested. No script line is expected to fail with
    /// `BadLimit`.
    BadLimit,
    /// The line is not a JSON object.
    BadLine,
    /// A timestamp is after the year 9999.
    BadMoment,
    /// The request for a page of the changes feed is invalid: its upper bound is not above its start. No script line is
    /// expected to fail with `BadRange`.
    BadRange,
    /// A document's `_revisions` is not an ancestry.
    BadRevisions,
    /// A revision id has no signature.
    BadSig,
    /// The database already has a backup of the given name.
    BackupExists,
    /// A counter of the progress board would exceed its maximum.
    BoardFull,
    /// An edit's parent is not a leaf, or an edit names no parent and the document has a live leaf.
    Conflict,
    /// A given revision has a different parent in the document's tree.
    Contradiction,
    /// A count of the session would exceed its maximum.
    CountFull,
    /// A UUID was given for an existing database.
    DatabaseExists,
    /// The requested log has no entries.
    EmptyLog,
    /// A backup of one database was given to restore another database. No script line is expected to fail with
    /// `ForeignBackup`.
    ForeignBackup,
    /// A parcel belongs to no window of the session. No script line is expected to fail with `ForeignParcel`.
    ForeignParcel,
    /// A number is not a 64-bit integer.
    Fraction,
    /// A window does not follow the previous window. No script line is expected to fail with `Gap`.
    Gap,
    /// An edit's parent has the maximum generation.
    GenerationFull,
    /// A requested page of the changes feed has a goal (an upper bound) above the database's update sequence. No script
    /// line is expected to fail with `GoalAhead`.
    GoalAhead,
    /// A session's goal is below its start. No script line is expected to fail with `GoalBelowStart`.
    GoalBelowStart,
    /// A worker was stopped. No script line is expected to fail with `Halted`.
    Halted,
    /// At least one leaf of the source is not covered by the target. No script line is expected to fail with `Hole`.
    Hole,
    /// The database has been a replication target.
    IsTarget,
    /// The database has no unused life (the number that changes when a database is restored).
    LifeFull,
    /// An allocation failed.
    Memory,
    /// The database has no backup of the given name.
    NoBackup,
    /// No database has the given name.
    NoDatabase,
    /// A document's id is missing, empty, or not a string.
    NoId,
    /// The list of selected documents is empty.
    NoneChosen,
    /// A document has no revision id.
    NoRev,
    /// A new session continues an earlier session that does not exist at the target. No script line is expected to fail
    /// with `NoSuchBase`.
    NoSuchBase,
    /// The database has no document with the given id.
    NoSuchDocument,
    /// The document does not have the named revision, or the revision's content is unknown.
    NoSuchRevision,
    /// The target does not have the named session.
    NoSuchSession,
    /// The number of workers is 0.
    NoWorkers,
    /// A document or a body is not an object.
    NotObject,
    /// The log already has an entry of the same session with a greater recorded sequence than the new entry. No script
    /// line is expected to fail with `Older`.
    Older,
    /// A window has another life than the session, or a log entry has another life than the database. No script line is
    /// expected to fail with `OtherLife`.
    OtherLife,
    /// A window ends above the goal. No script line is expected to fail with `PastGoal`.
    PastGoal,
    /// A document's id begins with `_`, and is not the id of a design document.
    ReservedId,
    /// The revision of an edit already exists.
    RevExists,
    /// A document's `_rev` is not the newest of its `_revisions`.
    RevMismatch,
    /// Source and target are the same database.
    SamePeer,
    /// The update sequence is at its maximum.
    SeqFull,
    /// A new database's update sequence is above the maximum. No script line is expected to fail with `SeqTooLarge`.
    SeqTooLarge,
    /// The target already has the named session.
    SessionExists,
    /// A special member is unknown, or `_deleted` is not a Boolean.
    SpecialMember,
    /// A session starts above the recorded sequence of the earlier session that it continues. No script line is
    /// expected to fail with `StartAboveBase`.
    StartAboveBase,
    /// Only part of a window was settled, because no memory or no update sequence was left.
    Stopped,
    /// More than 1,000 documents are selected.
    TooManyChosen,
    /// The number of workers is above 64.
    TooManyWorkers,
    /// The fetched documents do not cover a leaf of the window. No script line is expected to fail with `Uncovered`.
    Uncovered,
    /// A session has not reached its goal. No script line is expected to fail with `Unfinished`.
    Unfinished,
    /// Another database has the given UUID.
    UuidTaken,
}

impl Refusal {
    /// Returns the printed name (docs/PROFILE.md, "Names of refusals").
    pub fn name(&self) -> &'static str
        ensures { result.now ≡ name_of self.now }
    {
        match self {
            Refusal::AlreadyDone => "AlreadyDone",
            Refusal::Attachments => "Attachments",
            Refusal::BadBatch => "BadBatch",
            Refusal::BadCommand => "BadCommand",
            Refusal::BadGeneration => "BadGeneration",
            Refusal::BadLimit => "BadLimit",
            Refusal::BadLine => "BadLine",
            Refusal::BadMoment => "BadMoment",
            Refusal::BadRange => "BadRange",
            Refusal::BadRevisions => "BadRevisions",
            Refusal::BadSig => "BadSig",
            Refusal::BackupExists => "BackupExists",
            Refusal::BoardFull => "BoardFull",
            Refusal::Conflict => "Conflict",
            Refusal::Contradiction => "Contradiction",
            Refusal::CountFull => "CountFull",
            Refusal::DatabaseExists => "DatabaseExists",
            Refusal::EmptyLog => "EmptyLog",
            Refusal::ForeignBackup => "ForeignBackup",
            Refusal::ForeignParcel => "ForeignParcel",
            Refusal::Fraction => "Fraction",
            Refusal::Gap => "Gap",
            Refusal::GenerationFull => "GenerationFull",
            Refusal::GoalAhead => "GoalAhead",
            Refusal::GoalBelowStart => "GoalBelowStart",
            Refusal::Halted => "Halted",
            Refusal::Hole => "Hole",
            Refusal::IsTarget => "IsTarget",
            Refusal::LifeFull => "LifeFull",
            Refusal::Memory => "Memory",
            Refusal::NoBackup => "NoBackup",
            Refusal::NoDatabase => "NoDatabase",
            Refusal::NoId => "NoId",
            Refusal::NoneChosen => "NoneChosen",
            Refusal::NoRev => "NoRev",
            Refusal::NoSuchBase => "NoSuchBase",
            Refusal::NoSuchDocument => "NoSuchDocument",
            Refusal::NoSuchRevision => "NoSuchRevision",
            Refusal::NoSuchSession => "NoSuchSession",
            Refusal::NoWorkers => "NoWorkers",
            Refusal::NotObject => "NotObject",
            Refusal::Older => "Older",
            Refusal::OtherLife => "OtherLife",
            Refusal::PastGoal => "PastGoal",
            Refusal::ReservedId => "ReservedId",
            Refusal::RevExists => "RevExists",
            Refusal::RevMismatch => "RevMismatch",
            Refusal::SamePeer => "SamePeer",
            Refusal::SeqFull => "SeqFull",
            Refusal::SeqTooLarge => "SeqTooLarge",
            Refusal::SessionExists => "SessionExists",
            Refusal::SpecialMember => "SpecialMember",
            Refusal::StartAboveBase => "StartAboveBase",
            Refusal::Stopped => "Stopped",
            Refusal::TooManyChosen => "TooManyChosen",
            Refusal::TooManyWorkers => "TooManyWorkers",
            Refusal::Uncovered => "Uncovered",
            Refusal::Unfinished => "Unfinished",
            Refusal::UuidTaken => "UuidTaken",
        }
    }

    /// Returns the low water as `Ok` if a replication failed with `Unfinished`. Converts any other error of a
    /// replication to the error of the script line (`Err`).
    pub fn stop_of(fault: TargetFault) -> Result<u64, Refusal>
        ensures { result ≡ stop_of fault }
    {
        match fault {
            TargetFault::Unfinished { low_water } => Ok(low_water),
            fault => Err(Refusal::from(fault)),
        }
    }

    /// Returns the low water as `Ok` if a replication with a pool of threads failed with `Unfinished`. Converts any
    /// other error of the pool to the error of the script line (`Err`).
    pub fn run_stop_of(fault: PoolFault) -> Result<u64, Refusal>
        ensures { result ≡ run_stop_of fault }
    {
        match fault {
            PoolFault::NoWorkers => Err(Refusal::NoWorkers),
            PoolFault::TooManyWorkers => Err(Refusal::TooManyWorkers),
            PoolFault::BadBatch => Err(Refusal::BadBatch),
            PoolFault::SamePeer => Err(Refusal::SamePeer),
            PoolFault::Refused(fault) => Refusal::stop_of(fault),
            PoolFault::Halted(_) => Err(Refusal::Halted),
            PoolFault::Hole { .. } => Err(Refusal::Hole),
            PoolFault::CountFull => Err(Refusal::CountFull),
            PoolFault::BoardFull => Err(Refusal::BoardFull),
            PoolFault::Memory => Err(Refusal::Memory),
        }
    }
}

impl From<AllocError> for Refusal {
    ghost from_gives = { λ _ e. e ≡ Memory };

    fn from(_refused: AllocError) -> Refusal {
        Refusal::Memory
    }
}

impl<T: Drop> From<AllocFailed<T>> for Refusal {
    ghost from_gives = { λ _ e. e ≡ Memory };

    fn from(_refused: AllocFailed<T>) -> Refusal {
        Refusal::Memory
    }
}

/// Returns the error with which a line fails if the line's document, body or id is invalid.
impl From<DocFault> for Refusal {
    ghost from_gives = { λ fault e. e ≡ doc_refusal fault };

    fn from(fault: DocFault) -> Refusal {
        match fault {
            DocFault::NotObject => Refusal::NotObject,
            DocFault::NoId => Refusal::NoId,
            DocFault::ReservedId => Refusal::ReservedId,
            DocFault::Attachments => Refusal::Attachments,
            DocFault::SpecialMember => Refusal::SpecialMember,
            DocFault::NoRev => Refusal::NoRev,
            DocFault::BadRevisions => Refusal::BadRevisions,
            DocFault::RevMismatch => Refusal::RevMismatch,
            DocFault::Fraction => Refusal::Fraction,
            DocFault::NoneChosen => Refusal::NoneChosen,
            DocFault::TooManyChosen => Refusal::TooManyChosen,
            DocFault::Memory => Refusal::Memory,
        }
    }
}

/// Returns the error with which a line fails if the line's revision id is invalid.
///
/// Parsing a revision id never fails with `NoIds` or `StartTooSmall`.
impl From<RevFault> for Refusal {
    ghost from_gives = { λ fault e. e ≡ rev_refusal fault };

    fn from(fault: RevFault) -> Refusal {
        match fault {
            RevFault::BadGeneration => Refusal::BadGeneration,
            RevFault::BadSig => Refusal::BadSig,
            RevFault::NoIds => Refusal::BadRevisions,
            RevFault::StartTooSmall => Refusal::BadRevisions,
            RevFault::GenerationFull => Refusal::GenerationFull,
            RevFault::Memory => Refusal::Memory,
        }
    }
}

/// Returns the error with which a line fails if a call on a database failed.
impl From<BaseFault> for Refusal {
    ghost from_gives = { λ fault e. e ≡ base_refusal fault };

    fn from(fault: BaseFault) -> Refusal {
        match fault {
            BaseFault::Contradiction { .. } => Refusal::Contradiction,
            BaseFault::SeqFull => Refusal::SeqFull,
            BaseFault::SeqTooLarge => Refusal::SeqTooLarge,
            BaseFault::BadLimit => Refusal::BadLimit,
            BaseFault::BadRange => Refusal::BadRange,
            BaseFault::GoalAhead { .. } => Refusal::GoalAhead,
            BaseFault::NoSuchDocument => Refusal::NoSuchDocument,
            BaseFault::Conflict => Refusal::Conflict,
            BaseFault::GenerationFull => Refusal::GenerationFull,
            BaseFault::RevExists { .. } => Refusal::RevExists,
            BaseFault::Memory => Refusal::Memory,
        }
    }
}

/// Returns the error with which a line fails if a call on a log failed or a timestamp is invalid.
impl From<LogFault> for Refusal {
    ghost from_gives = { λ fault e. e ≡ log_refusal fault };

    fn from(fault: LogFault) -> Refusal {
        match fault {
            LogFault::BadMoment => Refusal::BadMoment,
            LogFault::Older { .. } => Refusal::Older,
            LogFault::EmptyLog => Refusal::EmptyLog,
            LogFault::Memory => Refusal::Memory,
        }
    }
}

/// Returns the error with which a line fails if a call on a peer failed.
impl From<TargetFault> for Refusal {
    ghost from_gives = { λ fault e. e ≡ target_refusal fault };

    fn from(fault: TargetFault) -> Refusal {
        match fault {
            TargetFault::SessionExists => Refusal::SessionExists,
            TargetFault::NoSuchBase => Refusal::NoSuchBase,
            TargetFault::StartAboveBase { .. } => Refusal::StartAboveBase,
            TargetFault::GoalBelowStart => Refusal::GoalBelowStart,
            TargetFault::NoSuchSession => Refusal::NoSuchSession,
            TargetFault::OtherLife { .. } => Refusal::OtherLife,
            TargetFault::Gap { .. } => Refusal::Gap,
            TargetFault::PastGoal => Refusal::PastGoal,
            TargetFault::ForeignParcel => Refusal::ForeignParcel,
            TargetFault::AlreadyDone => Refusal::AlreadyDone,
            TargetFault::CountFull => Refusal::CountFull,
            TargetFault::Stopped { .. } => Refusal::Stopped,
            TargetFault::Uncovered { .. } => Refusal::Uncovered,
            TargetFault::Unfinished { .. } => Refusal::Unfinished,
            TargetFault::Older { .. } => Refusal::Older,
            TargetFault::IsTarget => Refusal::IsTarget,
            TargetFault::ForeignBackup => Refusal::ForeignBackup,
            TargetFault::LifeFull => Refusal::LifeFull,
            TargetFault::BadBatch => Refusal::BadBatch,
            TargetFault::SamePeer => Refusal::SamePeer,
            TargetFault::Memory => Refusal::Memory,
        }
    }
}
