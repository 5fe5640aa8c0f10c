//! Calls `Peer::backup` and `restore`, and tests that a backup or restore whose allocation fails leaves the peer
//! unchanged.
use crate::peers::load;
use anyhow::{Result, bail};
use repl_log::{Moment, RepId};
use repl_target::{Backup, Peer, Rules, TargetFault};
use rev_tree::SessionId;
use std::alloc::{AllocError, Global};
use test_support::bare_entry;

/// The id of the replication from the peer with UUID 1 to the peer with UUID 2.
const REP: RepId = RepId {
    source: 1,
    target: 2,
    chosen: None,
};

/// The observed values of a peer: the life (incarnation) and update sequence of its database, and the numbers of its
/// local writes and log entries.
type Seen = (u64, u64, u64, usize);

/// Returns the number of entries in the log of the replication.
fn entries(alloc: Global, peer: &Peer<Rules>) -> Option<usize> {
    match peer.source_log(alloc, &REP) {
        Err(AllocError) => Some(peer.source_log(alloc, &REP).ok()?.len()),
        answer => Some(answer.ok()?.len()),
    }
}

fn look(alloc: Global, peer: &Peer<Rules>) -> Option<Seen> {
    let Some(entries) = entries(alloc, peer) else {
        return None;
    };
    let db = peer.db();
    Some((db.life(), db.update_seq(), peer.local_count(), entries))
}

/// Stores the entry of a session in a peer's log.
fn put_entry(peer: &mut Peer<Rules>, session: u128, at: Moment) -> Option<()> {
    let session = SessionId(session);
    match peer.put_entry(&REP, bare_entry(session, 0, at)) {
        Err(TargetFault::Memory) => peer.put_entry(&REP, bare_entry(session, 0, at)).ok(),
        answer => answer.ok(),
    }
}

fn backup(alloc: Global, peer: &Peer<Rules>) -> Option<Backup> {
    match peer.backup(alloc) {
        Err(TargetFault::Memory) => peer.backup(alloc).ok(),
        answer => answer.ok(),
    }
}

fn restore(alloc: Global, peer: &mut Peer<Rules>, backup: &Backup) -> Option<()> {
    let Some(before) = look(alloc, peer) else {
        return None;
    };
    match peer.restore(backup) {
        Err(TargetFault::Memory) => {
            if look(alloc, peer)? != before {
                return None;
            }
            peer.restore(backup).ok()
        }
        answer => answer.ok(),
    }
}

/// Loads two documents into a peer, and stores two entries in its log.
fn fill(alloc: Global, peer: &mut Peer<Rules>) -> Option<()> {
    load(
        alloc,
        peer,
        r#"{"_id":"d","_revisions":{"start":2,"ids":["b","a"]},"n":1}"#,
    )?;
    let Some(_put) = load(alloc, peer, r#"{"_id":"e","_rev":"1-a"}"#) else {
        return None;
    };
    let Ok(at) = Moment::new(10) else {
        return None;
    };
    let Some(()) = put_entry(peer, 1, at) else {
        return None;
    };
    put_entry(peer, 2, at)
}

/// Changes the documents and the log of a peer that was backed up.
fn go_on(alloc: Global, peer: &mut Peer<Rules>) -> Option<()> {
    load(
        alloc,
        peer,
        r#"{"_id":"e","_revisions":{"start":2,"ids":["b","a"]}}"#,
    )?;
    let Some(_put) = load(alloc, peer, r#"{"_id":"f","_rev":"1-a"}"#) else {
        return None;
    };
    put_entry(peer, 3, Moment::new(11).ok()?)
}

/// Backs up a peer, changes the peer, and restores the backup. Returns the observed values of the peer before the
/// backup and after the restore.
fn put_back(alloc: Global, peer: &mut Peer<Rules>) -> Option<(Seen, Seen)> {
    let Some(()) = fill(alloc, peer) else {
        return None;
    };
    let Some(copy) = backup(alloc, peer) else {
        return None;
    };
    let Some(()) = go_on(alloc, peer) else {
        return None;
    };
    let Some(before) = look(alloc, peer) else {
        return None;
    };
    let Some(()) = restore(alloc, peer, &copy) else {
        return None;
    };
    Some((before, look(alloc, peer)?))
}

/// Backs up a new peer, changes the peer, and restores the backup.
fn of_one(alloc: Global) -> Option<(Seen, Seen)> {
    let mut peer = Peer::new(alloc, 1, Rules { deny: None });
    put_back(alloc, &mut peer)
}

pub(crate) fn run(rt: &impl Print, alloc: Global) -> Result<()> {
    let Some((before, after)) = of_one(alloc) else {
        bail!("backups: another answer");
    };
    let (life, sequence, writes, entries) = after;
    println!(rt;
        "backups as wanted: sequence {} and then {sequence}, writes {writes}, entries {entries}, life {life}",
        before.1
    )?;
    Ok(())
}
