//! Assembles documents from the lines of a script's output.
ghost use Rattle.std.specs.Prelude.{◌≡◌, [], Some, None, true, IfOk, IfSome, IfNone, string_bytes};
ghost use Rattle.rev_core.specs.Ancestry.{head_of};
ghost use Rattle.output_parser.specs.declared.told.Told.TheVariants as lines;
ghost use Rattle.diagrams.specs.Drawing.{Holds, IsNext, with_all};

use crate::document::{Document, Leaf};
use output_parser::{Found, Log, Row, Told};
use rev_core::Rev;
use std::alloc::{AllocError, Global};

/// A complete item of a script's output, which can be drawn: a document, a line of `compare`, a row of numbers, or a
/// log.
#[derive(Drop)]
pub enum Whole {
    /// A document with all its leaves.
    Tree(Document),
    /// A line of `compare` about a document.
    Found(Found),
    /// A line of numbers.
    Row(Row),
    /// A log.
    Log(Log),
}

/// Processes the line `told` of a script's output. Returns two optional values: the document that is still incomplete
/// after the line, and the item that the line completes.
pub fn next(
    alloc: Global,
    begun: Option<Document>,
    told: Told,
) -> Result<(Option<Document>, Option<Whole>), AllocError>
    ensures { IfOk result (λ x. IsNext begun told x.0 x.1) }
{
    match told {
        Told::Document { id, count } => Ok((Some(Document::new(alloc, id, count)), None)),
        Told::Leaf { live, revs } => match begun {
            Some(document) => read_leaf(alloc, document, live, revs),
            None => Ok((None, None)),
        },
        Told::Conflict { id, revs } => Ok((
            None,
            Some(Whole::Tree(conflict_of(alloc, id, revs.as_slice())?)),
        )),
        Told::Found(found) => Ok((None, Some(Whole::Found(found)))),
        Told::Row(row) => Ok((None, Some(Whole::Row(row)))),
        Told::Log(log) => Ok((None, Some(Whole::Log(log)))),
        Told::Other => Ok((None, None)),
        Told::Unknown => Ok((None, None)),
    }
}

/// Adds the leaf of a `leaf` line to the document. If further `leaf` lines must follow, the call returns the incomplete
/// document. If all leaves have been read, the call returns the document as a complete item. If the `leaf` line has no
/// revisions, the call drops the document, and returns `(None, None)`.
fn read_leaf(
    alloc: Global,
    mut document: Document,
    live: bool,
    mut revs: Vec<Rev>,
) -> Result<(Option<Document>, Option<Whole>), AllocError>
    ensures { IfOk result (λ x. IsNext (Some document) (lines.Leaf live revs) x.0 x.1) }
{
    let Some(leaf) = leaf_of(live, revs.as_slice()) else {
        return Ok((None, None));
    };
    revs.as_mut_slice().reverse();
    let _own = revs.pop();
    document.add(alloc, leaf, revs.as_slice())?;
    if document.is_whole() {
        Ok((None, Some(Whole::Tree(document))))
    } else {
        Ok((Some(document), None))
    }
}

/// Builds a leaf from an ancestry, which is given with the newest revision first. Returns `None` if the ancestry is
/// empty.
fn leaf_of(live: bool, revs: &[Rev]) -> Option<Leaf>
    ensures some { IfSome result (λ l. (head_of revs.now ≡ Some l.rev) × (l.live ≡ live)) }
    ensures none { IfNone result (head_of revs.now ≡ None) }
{
    if revs.is_empty() {
        return None;
    }
    let rev = revs[0];
    Some(Leaf {
        apart: 0,
        parent: None,
        oldest: revs[revs.len() - 1].generation(),
        rev,
        wins: false,
        live,
    })
}

/// Builds a document from live leaves whose ancestors are unknown.
fn conflict_of(alloc: Global, id: String, revs: &[Rev]) -> Result<Document, AllocError>
    ensures { IfOk result (λ d. Holds d (string_bytes id) (with_all [] revs.now)) }
{
    let mut document = Document::new(alloc, id, revs.len() as u64);
    for i in 0..revs.len() {
        document.add(alloc, alone(revs[i]), &[])?;
    }
    Ok(document)
}

/// Builds a live leaf whose ancestors are unknown.
fn alone(rev: Rev) -> Leaf
    ensures rev { result.rev ≡ rev }
    ensures live { result.live ≡ true }
{
    Leaf {
        apart: 0,
        parent: None,
        oldest: rev.generation(),
        rev,
        wins: false,
        live: true,
    }
}
