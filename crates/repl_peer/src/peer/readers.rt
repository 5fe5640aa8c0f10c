//! Calls that read the parts of a peer. No call in this file allocates.
use crate::peer::Peer;
use crate::peer::filter::WriteFilter;
use crate::session::refused::Refused;
use crate::session::window::StoredWindow;
use range_front::Front;
use rev_tree::SessionId;

impl<F: WriteFilter> Peer<F> {
    ghost use Rattle.std.specs.Prelude.{◌≡◌, length, slice_get};
    ghost use Rattle.std.specs.Option.{option_copied, option_map};
    ghost use Rattle.repl_peer.specs.peer.Peer.{session_in};
    ghost use Rattle.repl_peer.specs.session.Windows.{windows_of};

    /// Returns the number of local writes. The next local write gets this number, which is the origin
    /// (`Origin::Local`) of the revisions that the write adds to its document's tree.
    pub fn local_count(&self) -> u64
        ensures { result ≡ length self.now.1.locals }
    {
        self.locals.count()
    }

    /// Returns the number of incoming sessions. The times and counts of sessions are in the sessions' log entries.
    pub fn session_count(&self) -> usize
        ensures { result ≡ length self.now.1.sessions }
    {
        self.sessions.len()
    }

    /// Returns the id of the session at an index, if there is one. The index of the newest session is 0.
    pub fn session_at(&self, place: usize) -> Option<SessionId>
        ensures { result ≡ option_map (λ s. s.id) (slice_get self.now.1.sessions place) }
    {
        self.sessions.id_at(place)
    }

    /// Returns the stored windows of a session, if the peer has the session. A done window may be stored without the
    /// leaves of its rows.
    pub fn windows(&self, id: SessionId) -> Option<&[StoredWindow]>
        ensures { option_map windows_of (option_copied result)
            ≡ option_map (λ s. s.windows) (session_in self.now.1.sessions id) }
    {
        match self.sessions.find(id) {
            Some(session) => Some(&session.windows),
            None => None,
        }
    }

    /// Returns the `Front` of a session, if the peer has the session. A session's `Front` says which of the session's
    /// windows (ranges of the source's feed) are marked as done.
    pub fn front(&self, id: SessionId) -> Option<&Front>
        ensures { option_map (λ f. f.front) (option_copied result)
            ≡ option_map (λ s. s.front) (session_in self.now.1.sessions id) }
    {
        match self.sessions.find(id) {
            Some(session) => Some(&session.front),
            None => None,
        }
    }

    /// Returns a session's ledger: the refused documents in order, each with the reason. Returns `None` if the peer
    /// does not have the session.
    pub fn ledger(&self, id: SessionId) -> Option<&[Refused]>
        ensures { option_copied result ≡ option_map (λ s. s.ledger) (session_in self.now.1.sessions id) }
    {
        match self.sessions.find(id) {
            Some(session) => Some(&session.ledger),
            None => None,
        }
    }
}
