//! The bodies of the requests that name leaves of documents.
ghost use Rattle.std.specs.Prelude.{◌≡◌, ◌++◌, IfOk, OnOk};
ghost use Rattle.json.specs.Print.{print};
ghost use Rattle.relay_core.specs.Views.{docs_view, doc_view, texts_of};
ghost use Rattle.relay_requests.specs.Bodies.{diff_tokens, doc_tokens, strings, docs_tokens, carry_tokens, leaf_tokens, leaves_tokens, all_leaves_tokens};

use json::Writer;
use relay_core::DocLeaves;
use std::alloc::{AllocError, Global};

fn put_strings(writer: &mut Writer, texts: &[String]) -> Result<(), AllocError>
    ensures before { OnOk result (writer.new.before ≡ writer.old.before) }
    ensures tokens { OnOk result (writer.new.tokens ≡ writer.old.tokens ++ strings (texts_of texts.now)) }
{
    for text in texts {
        writer.string(text.as_str())?;
    }
    Ok(())
}

/// Writes a document's id as a member name, and the list of the document's leaves as the value.
fn put_doc(writer: &mut Writer, doc: &DocLeaves) -> Result<(), AllocError>
    ensures before { OnOk result (writer.new.before ≡ writer.old.before) }
    ensures tokens { OnOk result (writer.new.tokens ≡ writer.old.tokens ++ doc_tokens (doc_view doc.now)) }
{
    writer.key(doc.id.as_str())?;
    writer.begin_array()?;
    put_strings(writer, doc.revs.as_slice())?;
    writer.end_array()?;
    Ok(())
}

fn put_docs(writer: &mut Writer, docs: &[DocLeaves]) -> Result<(), AllocError>
    ensures before { OnOk result (writer.new.before ≡ writer.old.before) }
    ensures tokens { OnOk result (writer.new.tokens ≡ writer.old.tokens ++ docs_tokens (docs_view docs.now)) }
{
    for doc in docs {
        put_doc(writer, doc)?;
    }
    Ok(())
}

/// Returns the body of a `_revs_diff` request for the given leaves.
pub(crate) fn diff_body(alloc: Global, docs: &[DocLeaves]) -> Result<Vec<u8>, AllocError>
    ensures { IfOk result (λ text. text.items ≡ print (diff_tokens (docs_view docs.now))) }
{
    let mut writer = Writer::new(Vec::new(alloc));
    writer.begin_object()?;
    put_docs(&mut writer, docs)?;
    writer.end_object()?;
    Ok(writer.into_inner())
}

/// Writes a leaf as an object with a document id and a revision.
fn put_leaf(writer: &mut Writer, id: &str, rev: &str) -> Result<(), AllocError>
    ensures before { OnOk result (writer.new.before ≡ writer.old.before) }
    ensures tokens { OnOk result (writer.new.tokens ≡ writer.old.tokens ++ leaf_tokens id.now rev.now) }
{
    writer.begin_object()?;
    writer.key("id")?;
    writer.string(id)?;
    writer.key("rev")?;
    writer.string(rev)?;
    writer.end_object()?;
    Ok(())
}

fn put_leaves(writer: &mut Writer, id: &str, revs: &[String]) -> Result<(), AllocError>
    ensures before { OnOk result (writer.new.before ≡ writer.old.before) }
    ensures tokens { OnOk result (writer.new.tokens ≡ writer.old.tokens ++ leaves_tokens id.now (texts_of revs.now)) }
{
    for rev in revs {
        put_leaf(writer, id, rev.as_str())?;
    }
    Ok(())
}

fn put_all_leaves(writer: &mut Writer, docs: &[DocLeaves]) -> Result<(), AllocError>
    ensures before { OnOk result (writer.new.before ≡ writer.old.before) }
    ensures tokens { OnOk result (writer.new.tokens ≡ writer.old.tokens ++ all_leaves_tokens (docs_view docs.now)) }
{
    for doc in docs {
        put_leaves(writer, doc.id.as_str(), doc.revs.as_slice())?;
    }
    Ok(())
}

/// Returns the body of the request that copies the given leaves from the source to the target.
pub(crate) fn carry_body(alloc: Global, docs: &[DocLeaves]) -> Result<Vec<u8>, AllocError>
    ensures { IfOk result (λ text. text.items ≡ print (carry_tokens (docs_view docs.now))) }
{
    let mut writer = Writer::new(Vec::new(alloc));
    writer.begin_object()?;
    writer.key("docs")?;
    writer.begin_array()?;
    put_all_leaves(&mut writer, docs)?;
    writer.end_array()?;
    writer.end_object()?;
    Ok(writer.into_inner())
}
