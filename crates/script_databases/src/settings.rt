//! The settings of a program that runs scripts.
ghost use Rattle.std.specs.Prelude.{◌≡◌, IfOk, false};
ghost use Rattle.script_databases.specs.Stored.{program_of};

use std::alloc::{AllocError, Global};

/// The settings that the program's options give.
#[derive(Drop)]
pub struct Settings {
    /// The id prefix of the documents that a target refuses.
    pub deny: Option<String>,
    /// The seed of generated ids.
    pub seed: u64,
    /// The timestamp of replications, in Unix time.
    pub at: u64,
    /// The number of workers of a replication.
    pub workers: u64,
    /// The maximum number of rows of a window.
    pub batch: u64,
    /// Whether successful loads and edits print nothing.
    pub quiet: bool,
}

impl Settings {
    /// Returns the default settings, which are no prefix, seed 0, timestamp 0, 4 workers, batches of 500, and not
    /// quiet.
    pub fn new() -> Settings
        ensures { result ≡ record { deny = None; seed = 0; at = 0; workers = 4; batch = 500; quiet = false } }
    {
        Settings {
            deny: None,
            seed: 0,
            at: 0,
            workers: 4,
            batch: 500,
            quiet: false,
        }
    }

    /// Copies the settings.
    pub fn copy(&self, alloc: Global) -> Result<Settings, AllocError>
        ensures { IfOk result (λ copy. program_of copy ≡ program_of self.now) }
    {
        let deny = match &self.deny {
            Some(prefix) => Some(String::from_str(alloc, prefix.as_str())?),
            None => None,
        };
        Ok(Settings {
            deny,
            seed: self.seed,
            at: self.at,
            workers: self.workers,
            batch: self.batch,
            quiet: self.quiet,
        })
    }
}
