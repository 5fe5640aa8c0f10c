//! Tests the functions `ValueReader::read_line`, `read_line_body` and `read_line_doc`. One `ValueReader` reads all
//! texts of the test.
use anyhow::{Result, bail};
use doc_json::{Doc, DocFault, read_line_body, read_line_doc, write_doc};
use json_values::{ReadFault, ValueReader};
use std::alloc::{AllocError, Global};

/// Two compact JSON texts. The second text needs a larger reading buffer than the first text.
static TEXTS: &[&[u8]] = &[
    b"{\"n\":[1,{\"m\":\"x\"}]}",
    b"{\"l\":[{\"a\":\"a text with a \\\" in it\",\"b\":-15},{\"a\":[],\"b\":{\"c\":true}},null]}",
];

/// A serialized document.
const DOCUMENT: &[u8] =
    b"{\"_id\":\"d\",\"_rev\":\"3-c\",\"_revisions\":{\"start\":3,\"ids\":[\"c\",\"b\",\"a\"]},\"n\":[1,{\"m\":\"x\"}]}";

/// Whether a JSON text, read as a document body, is serialized to the same text.
fn is_its_body(reader: &mut ValueReader, alloc: Global, text: &[u8]) -> Result<bool, DocFault> {
    let line = match reader.read_line(alloc, text) {
        Ok(line) => line,
        Err(ReadFault::Memory) => return Err(DocFault::Memory),
        Err(ReadFault::NotJson) => return Ok(false),
    };
    match read_line_body(alloc, &line.part()) {
        Ok(body) => Ok(body.text() == text),
        Err(fault) => Err(fault),
    }
}

/// Whether a JSON text, read as a document, is serialized to the same text.
fn is_its_document(reader: &mut ValueReader, alloc: Global, text: &[u8]) -> Result<bool, DocFault> {
    let line = match reader.read_line(alloc, text) {
        Ok(line) => line,
        Err(ReadFault::Memory) => return Err(DocFault::Memory),
        Err(ReadFault::NotJson) => return Ok(false),
    };
    match read_line_doc(alloc, &line.part()) {
        Ok(doc) => is_written_as(alloc, &doc, text),
        Err(fault) => Err(fault),
    }
}

/// Whether writing a document gives a given text.
fn is_written_as(alloc: Global, doc: &Doc, text: &[u8]) -> Result<bool, DocFault> {
    match write_doc(alloc, doc) {
        Ok(written) => Ok(written.as_slice() == text),
        Err(AllocError) => Err(DocFault::Memory),
    }
}

/// Calls `is_its_document`, and retries if an allocation fails.
fn is_written(reader: &mut ValueReader, alloc: Global, text: &[u8]) -> Result<bool, DocFault> {
    match is_its_document(reader, alloc, text) {
        Err(DocFault::Memory) => is_its_document(reader, alloc, text),
        answer => answer,
    }
}

/// Calls `is_its_body`, and retries if an allocation fails.
fn is_body(reader: &mut ValueReader, alloc: Global, text: &[u8]) -> Result<bool, DocFault> {
    match is_its_body(reader, alloc, text) {
        Err(DocFault::Memory) => is_its_body(reader, alloc, text),
        answer => answer,
    }
}

/// Whether one `ValueReader` reads all texts in `TEXTS` and the text `DOCUMENT` with the expected results.
fn are_read(alloc: Global) -> bool {
    let mut reader = ValueReader::new(alloc);
    let mut are_read = true;
    for text in TEXTS {
        are_read = are_read && is_body(&mut reader, alloc, text).ok() == Some(true);
    }
    are_read && is_written(&mut reader, alloc, DOCUMENT).ok() == Some(true)
}

pub(crate) fn run(rt: &impl Print, alloc: Global) -> Result<()> {
    if !are_read(alloc) {
        bail!("values: another answer");
    }
    println!(rt; "values as wanted")?;
    Ok(())
}
