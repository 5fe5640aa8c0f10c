//! Reads the progress of a script from its output.

use std::str;

/// The progress of a script, as counts of lines, sessions and documents.
#[derive(Clone, Copy, Drop)]
pub(crate) struct Seen {
    /// The number of successful `load` and `edit` lines.
    pub(crate) writes: u64,
    /// The number of sessions that reached the session's goal, or that stopped because of `stop_after`.
    pub(crate) sessions: u64,
    /// The number of documents read by the sessions that reached their goal.
    pub(crate) read: u64,
    /// The number of documents written by the sessions that reached their goal.
    pub(crate) written: u64,
}

impl Seen {
    /// No progress.
    pub(crate) fn nothing() -> Seen {
        Seen {
            writes: 0,
            sessions: 0,
            read: 0,
            written: 0,
        }
    }

    /// Updates the counts for the output of a line, or for the first piece of this output. The output of `load` and
    /// `edit` is empty if the program is quiet.
    pub(crate) fn note(&mut self, answer: &[u8]) {
        let Ok(text) = str::from_utf8(answer) else {
            return;
        };
        match text.split_whitespace().next() {
            None | Some("loaded") | Some("same") | Some("made") | Some("there") | Some("edited") =>
                {
                    self.writes = self.writes.saturating_add(1);
                }
            Some("session") | Some("progress") | Some("stopped") => self.note_sessions(text),
            _ => {}
        }
    }

    /// Updates the counts for the output of a `replicate` or `sync` line.
    fn note_sessions(&mut self, text: &str) {
        let mut before = "";
        for word in text.split_whitespace() {
            match before {
                "session" | "stopped" => self.sessions = self.sessions.saturating_add(1),
                "read" => self.read = self.read.saturating_add(word.parse().unwrap_or(0)),
                "written" => self.written = self.written.saturating_add(word.parse().unwrap_or(0)),
                _ => {}
            }
            before = word;
        }
    }
}
