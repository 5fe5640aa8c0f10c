//! Parses the ids, revisions, bodies and documents of a line. Each command calls the functions of this module in the
//! order that PROFILE specifies for the checks.
ghost use Rattle.std.specs.Prelude.{◌≡◌, option_map};
ghost use Rattle.std.specs.Option.{option_copied};
ghost use Rattle.json_values.specs.LineView.{line_view, line_items};
ghost use Rattle.script_databases.specs.Refusals.{GivesOrMemory};
ghost use Rattle.command_api.specs.Given.{body_given, body_given_or_empty, choice_given, chosen_given, document_given, id_given, ids_given, rev_given};
ghost use Rattle.command_api.specs.Checks.{seen_as};
ghost use Rattle.command_api.specs.Members.{texts_of};

use doc_json::{Body, Chosen, Doc, DocId, read_line_body, read_line_doc};
use json_values::{Line, LinePart, LineValue};
use rev_core::Rev;
use script_databases::Refusal;
use std::alloc::Global;

/// Parses a document id.
pub fn read_id(alloc: Global, text: &str) -> Result<DocId, Refusal>
    ensures { GivesOrMemory result (id_given text.now) }
{
    match DocId::parse(alloc, text) {
        Ok(id) => Ok(id),
        Err(fault) => Err(Refusal::from(fault)),
    }
}

/// Parses a list of document ids, in order.
fn read_ids(alloc: Global, texts: &[LineValue<'_>]) -> Result<Vec<DocId>, Refusal>
    ensures { GivesOrMemory (seen_as (λ ids. ids.items) result) (ids_given (texts_of (line_items texts.now))) }
{
    let mut ids = Vec::new(alloc);
    for item in texts {
        let Some(text) = item.as_str() else {
            continue;
        };
        let id = match read_id(alloc, text) {
            Ok(id) => id,
            Err(refusal) => return Err(refusal),
        };
        ids.push(id)?;
    }
    Ok(ids)
}

/// Builds the selection of the documents with the given ids.
fn choose(ids: Vec<DocId>) -> Result<Option<Chosen>, Refusal>
    ensures { GivesOrMemory result (chosen_given ids.items) }
{
    match Chosen::new(ids) {
        Ok(chosen) => Ok(Some(chosen)),
        Err(fault) => Err(Refusal::from(fault)),
    }
}

/// Parses the selection of a line, or returns `None` if the line has no list of ids.
///
/// # Errors
///
/// The call returns `NoId` or `ReservedId` for the first invalid id. If all ids are valid, the call may return
/// `NoneChosen` or `TooManyChosen`.
pub fn read_choice(alloc: Global, ids: Option<&[LineValue<'_>]>) -> Result<Option<Chosen>, Refusal>
    ensures { GivesOrMemory result (choice_given (option_map (λ v. texts_of (line_items v.now)) ids.entry)) }
{
    let Some(texts) = ids else {
        return Ok(None);
    };
    match read_ids(alloc, texts) {
        Ok(ids) => choose(ids),
        Err(refusal) => Err(refusal),
    }
}

/// Parses a revision id, if the line gives one.
pub fn read_rev(text: Option<&str>) -> Result<Option<Rev>, Refusal>
    ensures { result ≡ rev_given (option_copied text.entry) }
{
    let Some(text) = text else {
        return Ok(None);
    };
    match Rev::parse(text.as_bytes()) {
        Ok(rev) => Ok(Some(rev)),
        Err(fault) => Err(Refusal::from(fault)),
    }
}

/// Parses a body.
fn read_content(alloc: Global, part: &LinePart<'_, '_>) -> Result<Body, Refusal>
    ensures { GivesOrMemory result (body_given (line_view part.now)) }
{
    match read_line_body(alloc, part) {
        Ok(body) => Ok(body),
        Err(fault) => Err(Refusal::from(fault)),
    }
}

/// Parses an optional body. If the line gives no body, the call returns the body `{}`.
pub fn read_content_or_empty(
    alloc: Global,
    body: &Option<LinePart<'_, '_>>,
) -> Result<Body, Refusal>
    ensures { GivesOrMemory result (body_given_or_empty (option_map line_view body.now)) }
{
    match body {
        Some(part) => read_content(alloc, part),
        None => read_content(alloc, &Line::empty_object().part()),
    }
}

/// Parses an optional document.
pub fn read_document(alloc: Global, doc: &Option<LinePart<'_, '_>>) -> Result<Option<Doc>, Refusal>
    ensures { GivesOrMemory result (document_given (option_map line_view doc.now)) }
{
    let Some(part) = doc else {
        return Ok(None);
    };
    match read_line_doc(alloc, part) {
        Ok(doc) => Ok(Some(doc)),
        Err(fault) => Err(Refusal::from(fault)),
    }
}
