//! Prints explanations of errors, and progress, on standard error (docs/PROFILE.md, "Options").

use crate::seen::Seen;
use commands::ObserveAnswers;
use error_messages::explain;
use json_values::{ValueReader, is_same_text};
use script_databases::Settings;
use script_engine::Observe;
use std::alloc::{AllocError, Global};
use std::io::Eprint;
use std::rt::Clock;
use std::time::Instant;
use std::{io, str};

/// The maximum number of errors that the reporter explains.
const MOST_TOLD: u64 = 20;

/// The limits of workers, batch size and timestamp (docs/PROFILE.md, "Limits").
const MOST_WORKERS: u64 = 64;

const MOST_BATCH: u64 = 10000;

const LAST_MOMENT: u64 = 253402300799;

/// The time between two progress messages, in seconds.
const PAUSE: u64 = 1;

/// Reports errors and progress on standard error.
#[derive(Drop)]
pub struct ErrorReporter<'a, H> {
    rt: &'a H,
    /// Whether errors are explained.
    explains: bool,
    /// The time of the last progress message, or `None` if progress is not shown.
    told_at: Option<Instant>,
    /// The progress so far.
    seen: Seen,
    /// The number of errors that the reporter has explained.
    told: u64,
    /// The number of errors for each error name.
    counts: Vec<(&'static str, u64)>,
    /// The JSON reader for lines.
    values: ValueReader,
    /// The buffer for messages.
    text: String,
    alloc: Global,
}

impl<'a, H: Eprint + Clock> Observe for ErrorReporter<'a, H> {
    #[inline]
    fn observe(&mut self, number: u64, line: &[u8], refused: Option<&'static str>) {
        if let Some(name) = refused
            && self.explains
        {
            self.tell(number, line, name);
        }
        if let Some(told_at) = self.told_at {
            self.show(number, told_at);
        }
    }

    /// Reports the number of errors for each error name.
    fn close(&mut self) {
        if self.told_at.is_some() {
            let _ = eprint!(self.rt; "\r\x1b[K");
        }
        for row in &self.counts {
            let _ = eprintln!(self.rt; "refused as {}: {}", row.0, row.1);
        }
    }
}

impl<'a, H: Eprint + Clock> ObserveAnswers for ErrorReporter<'a, H> {
    #[inline]
    fn observe_answer(&mut self, answer: &[u8]) {
        if self.told_at.is_some() {
            self.seen.note(answer);
        }
    }
}

impl<'a, H: Eprint + Clock> ErrorReporter<'a, H> {
    /// Creates a reporter. The reporter explains errors if `explains` is true, and shows progress if `shows` is true.
    pub(crate) fn new(
        rt: &'a H,
        alloc: Global,
        explains: bool,
        shows: bool,
    ) -> ErrorReporter<'a, H> {
        let told_at = if shows { Instant::now(rt).ok() } else { None };
        ErrorReporter {
            rt,
            explains,
            told_at,
            seen: Seen::nothing(),
            told: 0,
            counts: Vec::new(alloc),
            values: ValueReader::new(alloc),
            text: String::new(alloc),
            alloc,
        }
    }

    /// Warns about options with invalid values (docs/PROFILE.md, "Limits"), if the reporter explains errors
    /// (`explains`). If an option has an invalid value, each `replicate` or `sync` line that does not override the
    /// value fails.
    pub(crate) fn warn(&self, settings: &Settings) {
        if !self.explains {
            return;
        }
        if settings.workers == 0 || settings.workers > MOST_WORKERS {
            let _ = eprintln!(self.rt;
                "warning: --workers must be 1 to 64; replicate and sync commands without \"workers\" will fail"
            );
        }
        if settings.batch == 0 || settings.batch > MOST_BATCH {
            let _ = eprintln!(self.rt;
                "warning: --batch must be 1 to 10000; replicate and sync commands without \"batch\" will fail"
            );
        }
        if settings.at > LAST_MOMENT {
            let _ = eprintln!(self.rt;
                "warning: --at must be before the year 10000; replicate and sync commands without \"at\" will fail"
            );
        }
    }

    /// Explains an error. The call prints nothing if an allocation fails.
    #[inline(never)]
    fn tell(&mut self, number: u64, line: &[u8], name: &'static str) {
        let _ = self.count(name);
        if self.told >= MOST_TOLD {
            return;
        }
        self.told += 1;
        self.text.clear();
        let made = explain(
            &mut self.values,
            self.alloc,
            number,
            line,
            name,
            &mut self.text,
        );
        if made.is_ok() {
            let text = self.text.as_str();
            let _ = eprint!(self.rt; "{text}");
        }
    }

    /// Counts an error name.
    fn count(&mut self, name: &'static str) -> Result<(), AllocError> {
        for row in self.counts.iter_mut() {
            if is_same_text(row.0, name) {
                row.1 = row.1.saturating_add(1);
                return Ok(());
            }
        }
        self.counts.push((name, 1))?;
        Ok(())
    }

    /// Shows progress, at most once per second.
    #[inline(never)]
    fn show(&mut self, number: u64, told_at: Instant) {
        let Ok(now) = Instant::now(self.rt) else {
            return;
        };
        if now.duration_since(told_at).as_secs() < PAUSE {
            return;
        }
        self.told_at = Some(now);
        let Seen {
            writes,
            sessions,
            read,
            written,
        } = self.seen;
        let _ = eprint!(self.rt;
            "\rline {number}: {writes} loads and edits, {sessions} sessions, {read} documents read, {written} written "
        );
    }
}
