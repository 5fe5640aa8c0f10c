//! The results and errors of calls on databases.
ghost use Rattle.std.specs.Prelude.{◌≡◌};
ghost use Rattle.couch_base.specs.declared.fault.BaseFault.TheVariants.{Memory};
ghost use Rattle.couch_base.specs.Answers.{edit_refusal};

use crate::window::Window;
use rev_core::{Rev, RevFault};
use std::alloc::AllocError;
use thiserror::Error;

/// The result of an edit: the new revision, or an error.
pub type Revised = Result<Rev, BaseFault>;

/// The result of reading a page of the changes feed: its window, or an error.
pub type Listed = Result<Window, BaseFault>;

/// What a put changed.
#[derive(Clone, Copy, Debug, PartialEq, Eq)]
pub enum Put {
    /// The put changed the document, and took the update sequence `seq`.
    Changed { seq: u64 },
    /// The database already had the document. No sequence was taken.
    Same,
}

/// Why a call failed.
#[derive(Clone, Copy, Debug, Error)]
pub enum BaseFault {
    /// A revision has one parent in the given ancestry and a different parent in the document's tree. The field `child`
    /// is the newest revision with two different parents. The field `known` is the child's parent in the tree, and
    /// `given` is the child's parent in the ancestry.
    #[error("a revision has another parent in the document's tree")]
    Contradiction { child: Rev, known: Rev, given: Rev },
    /// The update sequence has reached the maximum, 9,007,199,254,740,991.
    #[error("no sequence after 9007199254740991")]
    SeqFull,
    /// The requested update sequence exceeds the maximum, 9,007,199,254,740,991.
    #[error("an update sequence above 9007199254740991")]
    SeqTooLarge,
    /// The limit (the maximum number of rows to read) of a page of the changes feed is 0.
    #[error("a page has at least one row")]
    BadLimit,
    /// The upper limit of a page of changes (its goal) is not above the sequence at which the page begins.
    #[error("the goal is not above the start")]
    BadRange,
    /// The upper limit of a page of changes (its goal) is above the database's update sequence.
    #[error("the goal is above the update sequence {update_seq}")]
    GoalAhead { update_seq: u64 },
    /// An edit names a parent, and the document does not exist.
    #[error("no such document")]
    NoSuchDocument,
    /// The edit's parent is not a leaf, or the edit names no parent and the document has a live leaf.
    #[error("the edit's parent is not a leaf, or a live leaf is passed over")]
    Conflict,
    /// The edit's parent has the greatest generation, 4,294,967,295.
    #[error("no generation after 4294967295")]
    GenerationFull,
    /// The document's tree already has the new revision of the edit.
    #[error("the edit is there already")]
    RevExists { rev: Rev },
    /// An allocation failed.
    #[error("out of memory")]
    Memory,
}

impl From<AllocError> for BaseFault {
    ghost from_gives = { λ _ fault. fault ≡ Memory };

    fn from(_refused: AllocError) -> BaseFault {
        BaseFault::Memory
    }
}

impl From<RevFault> for BaseFault {
    ghost from_gives = { λ refused fault. fault ≡ edit_refusal refused };

    fn from(refused: RevFault) -> BaseFault {
        match refused {
            RevFault::Memory => BaseFault::Memory,
            _ => BaseFault::GenerationFull,
        }
    }
}
