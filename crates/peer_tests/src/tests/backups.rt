//! Functions that back up and restore the peers of a test.
use crate::tests::records::fault_text;
use crate::tests::texts::numbers_text;
use repl_target::{Backup, Peer, Rules};
use std::alloc::Global;

/// Backs up a peer.
pub(crate) fn back_up(
    alloc: Global,
    peer: Option<&Peer<Rules>>,
    backups: &mut Vec<Backup>,
) -> Option<String> {
    let Some(peer) = peer else {
        return None;
    };
    match peer.backup(alloc) {
        Ok(backup) => keep(alloc, backups, backup),
        Err(fault) => fault_text(alloc, fault),
    }
}

/// Stores a backup, and returns the UUID and the update sequence of the backed-up database.
fn keep(alloc: Global, backups: &mut Vec<Backup>, backup: Backup) -> Option<String> {
    let text = numbers_text(alloc, backup.db());
    let Ok(()) = backups.push(backup) else {
        return None;
    };
    text
}

/// Restores a peer from a backup, or returns `None` if `peer` or `backup` is `None`.
pub(crate) fn restore_at(
    alloc: Global,
    peer: Option<&mut Peer<Rules>>,
    backup: Option<&Backup>,
) -> Option<String> {
    match (peer, backup) {
        (Some(peer), Some(backup)) => restore(alloc, peer, backup),
        _ => None,
    }
}

/// Restores a peer.
pub(crate) fn restore(alloc: Global, peer: &mut Peer<Rules>, backup: &Backup) -> Option<String> {
    match peer.restore(backup) {
        Ok(()) => "restored".to_string(alloc).ok(),
        Err(fault) => fault_text(alloc, fault),
    }
}
