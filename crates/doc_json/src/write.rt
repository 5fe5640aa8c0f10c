//! Writing documents.
ghost use Rattle.std.specs.Prelude.{◌≡◌, ◌++◌, Ok, Some, OnOk, IfOk, decimal};
ghost use Rattle.serde_json.specs.Data.{Data};
ghost use Rattle.serde_json.specs.Read.{read};
ghost use Rattle.doc_json.specs.Buffers.{Keeps};
ghost use Rattle.doc_json.specs.DocRead.{doc_read};
ghost use Rattle.doc_json.specs.DocText.{doc_text, revs_text, head_text, start_text, sig_text, sig_texts, deleted_text, rest_text};

use crate::doc::Doc;
use crate::text::push_text;
use itoa::Buffer;
use rev_core::{Ancestry, Rev};
use std::alloc::{AllocError, Global};

/// Serializes a document in compact form. The members of the result are `_id`, `_rev`, `_revisions`, `_deleted` if the
/// document is deleted, and then the members of the body.
///
/// If `serde_json` can read the result, `read_doc` returns the document.
pub fn write_doc(alloc: Global, doc: &Doc) -> Result<Vec<u8>, AllocError>
    ensures text { IfOk result (λ v. v.items ≡ doc_text doc.now) }
    ensures reads_back { (d : Data) → read (doc_text doc.now) ≡ Some d → doc_read d ≡ Ok doc.now }
{
    let mut out = Vec::new(alloc);
    push_doc(&mut out, doc)?;
    Ok(out)
}

/// Appends the serialized document to a buffer. If an allocation fails, the call may have appended a part of the
/// document, but the buffer keeps its previous content.
pub fn push_doc(out: &mut Vec<u8>, doc: &Doc) -> Result<(), AllocError>
    ensures text { OnOk result (out.new.items ≡ out.old.items ++ doc_text doc.now) }
    ensures kept { Keeps out.old.items out.new.items }
    ensures reads_back { (d : Data) → read (doc_text doc.now) ≡ Some d → doc_read d ≡ Ok doc.now }
{
    let _deleted = doc.deleted();
    push_parts(out, doc)
}

/// Appends the serialized document, given its parts. The call first reserves buffer space that is enough for most
/// documents.
fn push_parts(out: &mut Vec<u8>, doc: &Doc) -> Result<(), AllocError>
    ensures text { OnOk result (out.new.items ≡ out.old.items ++ doc_text doc.now) }
    ensures kept { Keeps out.old.items out.new.items }
{
    let body = doc.body().text();
    // Most signatures have 32 bytes, plus quotation marks and a comma.
    let sigs = doc.ancestry().revs().len().saturating_mul(36);
    out.reserve(body.len().saturating_add(sigs).saturating_add(256))?;
    out.extend_from_slice(b"{\"_id\":")?;
    push_text(out, doc.id().text())?;
    push_revs(out, doc.ancestry())?;
    out.extend_from_slice(deleted_text(doc.deleted()))?;
    push_rest(out, body)
}

/// Appends the members `_rev` and `_revisions`, each after a comma.
fn push_revs(out: &mut Vec<u8>, ancestry: &Ancestry) -> Result<(), AllocError>
    ensures text { OnOk result (out.new.items ≡ out.old.items ++ revs_text ancestry.now) }
    ensures kept { Keeps out.old.items out.new.items }
{
    out.extend_from_slice(b",\"_rev\":\"")?;
    push_head(out, ancestry)?;
    out.extend_from_slice(b"\",\"_revisions\":{\"start\":")?;
    push_start(out, ancestry)?;
    out.extend_from_slice(b",\"ids\":[")?;
    push_sigs(out, ancestry.revs())?;
    out.extend_from_slice(b"]}")?;
    Ok(())
}

/// Appends the newest revision.
fn push_head(out: &mut Vec<u8>, ancestry: &Ancestry) -> Result<(), AllocError>
    ensures text { OnOk result (out.new.items ≡ out.old.items ++ head_text ancestry.now) }
    ensures kept { Keeps out.old.items out.new.items }
{
    let head = ancestry.head();
    push_number(out, head.generation())?;
    out.push(b'-')?;
    out.extend_from_slice(head.sig_bytes())?;
    Ok(())
}

/// Appends the newest revision's generation.
fn push_start(out: &mut Vec<u8>, ancestry: &Ancestry) -> Result<(), AllocError>
    ensures text { OnOk result (out.new.items ≡ out.old.items ++ start_text ancestry.now) }
    ensures kept { Keeps out.old.items out.new.items }
{
    push_number(out, ancestry.head().generation())
}

/// Appends a number in decimal.
fn push_number(out: &mut Vec<u8>, number: u32) -> Result<(), AllocError>
    ensures text { OnOk result (out.new.items ≡ out.old.items ++ decimal number) }
    ensures kept { Keeps out.old.items out.new.items }
{
    let mut buffer = Buffer::new();
    out.extend_from_slice(buffer.format(number).as_bytes())?;
    Ok(())
}

/// Appends the signatures of an ancestry, each in quotation marks.
fn push_sigs(out: &mut Vec<u8>, revs: &[Rev]) -> Result<(), AllocError>
    ensures text { OnOk result (out.new.items ≡ out.old.items ++ sig_texts revs.now) }
    ensures kept { Keeps out.old.items out.new.items }
{
    for i in 0..revs.len() {
        if i > 0 {
            out.push(b',')?;
        }
        push_sig(out, &revs[i])?;
    }
    Ok(())
}

/// Appends a signature in quotation marks.
fn push_sig(out: &mut Vec<u8>, rev: &Rev) -> Result<(), AllocError>
    ensures text { OnOk result (out.new.items ≡ out.old.items ++ sig_text rev.now) }
    ensures kept { Keeps out.old.items out.new.items }
{
    out.push(b'"')?;
    out.extend_from_slice(rev.sig_bytes())?;
    out.push(b'"')?;
    Ok(())
}

/// Returns the text of the member `_deleted` for a deleted document, and otherwise an empty string.
fn deleted_text(deleted: bool) -> &'static [u8]
    ensures { result.now ≡ deleted_text deleted }
{
    if deleted { b",\"_deleted\":true" } else { b"" }
}

/// Appends the body's members, and the closing brace of the document.
fn push_rest(out: &mut Vec<u8>, body: &[u8]) -> Result<(), AllocError>
    ensures text { OnOk result (out.new.items ≡ out.old.items ++ rest_text body.now) }
    ensures kept { Keeps out.old.items out.new.items }
{
    if body == b"{}".as_slice() {
        out.push(b'}')?;
        return Ok(());
    }
    out.push(b',')?;
    if let Some((_, rest)) = body.split_first() {
        out.extend_from_slice(rest)?;
    }
    Ok(())
}
