//! Tests `DocId::parse`, `read_doc`, `read_body`, `write_doc`, `new_rev`, and copies of documents and ids.
use anyhow::{Result, bail};
use doc_json::{Body, Doc, DocFault, DocId, read_body, read_doc, write_doc};
use rev_core::{Rev, RevFault, new_rev};
use serde_json::Value;
use std::alloc::{AllocError, Global};

/// A serialized document.
const TEXT: &[u8] =
    b"{\"_id\":\"d\",\"_rev\":\"3-c\",\"_revisions\":{\"start\":3,\"ids\":[\"c\",\"b\",\"a\"]},\"_deleted\":true,\"n\":[1,{\"m\":\"x\"}]}";

/// Parses a JSON value.
fn value(alloc: Global, text: &[u8]) -> Option<Value> {
    match Value::from_slice(alloc, text) {
        Ok(value) => Some(value),
        Err(_) => Value::from_slice(alloc, text).ok(),
    }
}

fn read(alloc: Global, value: &Value) -> Result<Doc, DocFault> {
    match read_doc(alloc, value) {
        Err(DocFault::Memory) => read_doc(alloc, value),
        answer => answer,
    }
}

fn copied(alloc: Global, doc: &Doc) -> Result<Doc, AllocError> {
    match doc.copy(alloc) {
        Err(AllocError) => doc.copy(alloc),
        answer => answer,
    }
}

fn written(alloc: Global, doc: &Doc) -> Result<Vec<u8>, AllocError> {
    match write_doc(alloc, doc) {
        Err(AllocError) => write_doc(alloc, doc),
        answer => answer,
    }
}

/// Returns the id d.
fn id(alloc: Global) -> Result<DocId, DocFault> {
    match DocId::parse(alloc, "d") {
        Err(DocFault::Memory) => DocId::parse(alloc, "d"),
        answer => answer,
    }
}

/// Reads a JSON value as a document body.
fn body(alloc: Global, members: &Value) -> Result<Body, DocFault> {
    match read_body(alloc, members) {
        Err(DocFault::Memory) => read_body(alloc, members),
        answer => answer,
    }
}

/// Returns the revision of an edit without a parent.
fn revised(alloc: Global, text: &[u8]) -> Result<Rev, RevFault> {
    match new_rev(alloc, None, false, text) {
        Err(RevFault::Memory) => new_rev(alloc, None, false, text),
        answer => answer,
    }
}

/// Whether a document id is `d`.
fn is_named(alloc: Global) -> bool {
    match id(alloc) {
        Ok(id) => id.text() == "d",
        Err(_) => false,
    }
}

/// Whether an edit with a body gives a revision of generation 1.
fn is_first(alloc: Global, text: &[u8]) -> bool {
    match revised(alloc, text) {
        Ok(rev) => rev.generation() == 1,
        Err(_) => false,
    }
}

/// Whether a JSON value is read as the expected body, and an edit with this body creates a revision of generation 1.
fn is_edited(alloc: Global, members: &Value) -> bool {
    match body(alloc, members) {
        Ok(body) => body.text() == b"{\"n\":1}".as_slice() && is_first(alloc, body.text()),
        Err(_) => false,
    }
}

/// Whether the id, the body and the revision of an edit are as expected.
fn edited(alloc: Global) -> bool {
    match value(alloc, b"{\"n\":1}") {
        Some(members) => is_named(alloc) && is_edited(alloc, &members),
        None => false,
    }
}

/// Whether writing a document gives the expected text.
fn is_text(alloc: Global, doc: &Doc) -> bool {
    match written(alloc, doc) {
        Ok(text) => text.as_slice() == TEXT,
        Err(AllocError) => false,
    }
}

/// Whether writing a copy of a document gives the expected text.
fn is_copied(alloc: Global, doc: &Doc) -> bool {
    match copied(alloc, doc) {
        Ok(copy) => is_text(alloc, &copy),
        Err(AllocError) => false,
    }
}

/// Reads a document from a JSON value, and returns whether a copy of the document is written as the expected text.
fn is_read(alloc: Global, value: &Value) -> bool {
    match read(alloc, value) {
        Ok(doc) => is_copied(alloc, &doc),
        Err(_) => false,
    }
}

/// Whether reading and writing the document's text gives the expected results.
fn of_text(alloc: Global) -> bool {
    match value(alloc, TEXT) {
        Some(value) => is_read(alloc, &value),
        None => false,
    }
}

pub(crate) fn run(rt: &impl Print, alloc: Global) -> Result<()> {
    if !of_text(alloc) {
        bail!("another text was written");
    }
    if !edited(alloc) {
        bail!("another edit");
    }
    println!(rt; "documents as wanted")?;
    Ok(())
}
