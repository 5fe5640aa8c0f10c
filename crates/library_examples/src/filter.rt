//! An example of a custom write filter. An office and a phone replicate in both directions, and the phone refuses large
//! documents.
use anyhow::{Result, bail};
use doc_json::{Doc, DocId, read_body, write_doc};
use repl_log::Moment;
use repl_target::{Peer, Plan, Rules, Verdict, WriteFilter, sync_alone};
use rev_tree::SessionId;
use serde_json::Value;
use std::alloc::Global;

/// Refuses each document whose body has more than `most` bytes.
#[derive(Drop)]
struct Small {
    most: usize,
}

impl WriteFilter for Small {
    ghost use Rattle.std.specs.Prelude.{length, nat_lt};

    ghost refuses = { λ small doc. nat_lt small.most (length doc.body) };

    fn verdict(&self, doc: &Doc) -> Verdict {
        if doc.body().text().len() > self.most {
            Verdict::Refuse
        } else {
            Verdict::Accept
        }
    }
}

/// Writes documents on both sides, replicates in both directions, and prints the documents of each side.
pub fn run(rt: &HostRuntime) -> Result<()> {
    let mut office = Peer::new(rt.alloc(), 1, Rules { deny: None });
    let mut phone = Peer::new(rt.alloc(), 2, Small { most: 40 });
    edit(rt.alloc(), &mut office, "hours", r#"{"open":8,"close":18}"#)?;
    edit(
        rt.alloc(),
        &mut office,
        "manual",
        r#"{"text":"of more than forty bytes, so it stays"}"#,
    )?;
    edit(rt.alloc(), &mut phone, "call", r#"{"to":"the baker"}"#)?;
    meet(rt, &mut office, &mut phone)?;
    show(rt, &phone, "hours")?;
    show(rt, &phone, "manual")?;
    show(rt, &office, "call")
}

/// Writes the first revision of a document.
fn edit<F: WriteFilter>(alloc: Global, peer: &mut Peer<F>, id: &str, json: &str) -> Result<()> {
    let id = DocId::parse(alloc, id)?;
    let value = Value::from_slice(alloc, json.as_bytes())?;
    let body = read_body(alloc, &value)?;
    peer.edit(&id, None, false, &body)?;
    Ok(())
}

/// Replicates in both directions, and prints the numbers of documents that each target wrote and refused.
fn meet(rt: &HostRuntime, office: &mut Peer<Rules>, phone: &mut Peer<Small>) -> Result<()> {
    let there = plan(1)?;
    let back = plan(2)?;
    let synced = sync_alone(rt.alloc(), office, phone, &there, &back)?;
    for (way, report) in [
        ("to the phone", synced.there),
        ("to the office", synced.back),
    ] {
        let (written, failed) = (report.counts.written, report.counts.failures);
        println!(rt; "{way}: {written} written, {failed} refused")?;
    }
    Ok(())
}

/// Creates a plan that replicates all documents in a session with a given id.
fn plan(session: u128) -> Result<Plan> {
    Ok(Plan {
        session: SessionId(session),
        workers: 1,
        batch: 500,
        stop_after: None,
        at: Moment::new(1_700_000_000)?,
        chosen: None,
    })
}

/// Prints the winning revision of a document, or that the document does not exist.
fn show<F: WriteFilter>(rt: &HostRuntime, peer: &Peer<F>, id: &str) -> Result<()> {
    let name = DocId::parse(rt.alloc(), id)?;
    let Some(winner) = peer.db().tree(&name).and_then(|tree| tree.winner()) else {
        println!(rt; "{id} is not there")?;
        return Ok(());
    };
    let Some(doc) = peer.db().document(rt.alloc(), &name, winner)? else {
        bail!("a winner without a content");
    };
    let bytes = write_doc(rt.alloc(), &doc)?;
    println!(rt; "{}", std::str::from_utf8(&bytes)?)?;
    Ok(())
}
