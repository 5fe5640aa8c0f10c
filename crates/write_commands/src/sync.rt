//! `sync`: replicates in both directions between two databases.
ghost use Rattle.std.specs.Prelude.{◌≡◌};
ghost use Rattle.json_values.specs.LineView.{line_view};
ghost use Rattle.command_api.specs.Checks.{needed};
ghost use Rattle.write_commands.specs.Sync.{shared_in, way_options};

use crate::replicate::{Options, Replicate, serve_replication};
use command_api::{
    Command, has_only_members, name_member, optional_flag, optional_texts, optional_uuid,
    optional_whole,
};
use json_values::{Line, LineValue};
use script_databases::{Databases, Refusal};
use std::alloc::Global;
use std::sync::Wait;
use std::thread::Threads;

/// The parameters of a `sync` line, which replicates from `a` to `b` and then from `b` to `a`.
#[derive(Drop)]
pub struct BothWays<'v, 'a> {
    pub there: Replicate<'v, 'a>,
    pub back: Replicate<'v, 'a>,
}

/// The parameters that apply to both directions of a `sync`.
#[derive(Clone, Copy, Debug, PartialEq, Eq)]
pub struct Shared {
    /// The number of fetchers, and the number of writers.
    pub workers: Option<u64>,
    /// The maximum number of rows of a window.
    pub batch: Option<u64>,
    /// The timestamp of the forward and the reverse session, in seconds of Unix time.
    pub at: Option<u64>,
    /// Whether each direction uses one thread.
    pub alone: bool,
}

impl<'v, 'a> Command<&'v Line<'a>> for BothWays<'v, 'a> {
    ghost use Rattle.write_commands.specs.Sync.{SyncAsk, Syncs, sync_asked, sync_in};

    ghost seen = { λ line. line_view line.now };

    ghost Ask = { SyncAsk };

    ghost asked = { sync_asked };

    ghost asked_in = { sync_in };

    ghost answers = { Syncs };

    fn read(line: &'v Line<'a>) -> Option<BothWays<'v, 'a>> {
        let value = line.value();
        let a = name_member(value, "a")?;
        let b = name_member(value, "b")?;
        let doc_ids = optional_texts(value, "doc_ids")?;
        let there = optional_uuid(value, "there")?;
        let back = optional_uuid(value, "back")?;
        let shared = shared_of(value)?;
        if !has_only_members(
            value,
            &[
                "do", "a", "b", "doc_ids", "there", "back", "workers", "batch", "at", "alone",
            ],
        ) {
            return None;
        }
        Some(BothWays {
            there: Replicate {
                source: a,
                target: b,
                doc_ids,
                options: options_of(&shared, there),
            },
            back: Replicate {
                source: b,
                target: a,
                doc_ids,
                options: options_of(&shared, back),
            },
        })
    }

    /// Runs `sync`. If the replication from `a` to `b` fails, the replication from `b` to `a` does not start. The call
    /// can block only if the option `alone` is false.
    fn serve<H: Threads + Wait + Sync>(
        &self,
        rt: &H,
        alloc: Global,
        databases: &mut Databases,
        answer: &mut Vec<u8>,
    ) -> Result<(), Refusal> {
        serve_replication(rt, alloc, databases, &self.there, answer)?;
        databases.law();
        let mut behind = Vec::new(alloc);
        serve_replication(rt, alloc, databases, &self.back, &mut behind)?;
        answer.extend_from_slice(behind.as_slice())?;
        Ok(())
    }
}

/// Reads the parameters that apply to both directions of a `sync`.
fn shared_of(value: &LineValue<'_>) -> Option<Shared>
    ensures { needed result ≡ shared_in (line_view value.now) }
{
    let workers = optional_whole(value, "workers")?;
    let batch = optional_whole(value, "batch")?;
    let at = optional_whole(value, "at")?;
    let alone = optional_flag(value, "alone")?.unwrap_or(false);
    Some(Shared {
        workers,
        batch,
        at,
        alone,
    })
}

/// Returns the parameters of the forward or the reverse replication of a `sync` line, with the replication's session
/// id. Both replications of a `sync` line run without a limit of windows, and print no progress counts.
fn options_of(shared: &Shared, session: Option<u128>) -> Options
    ensures { result ≡ way_options shared.now session }
{
    Options {
        session,
        alone: shared.alone,
        workers: shared.workers,
        batch: shared.batch,
        at: shared.at,
        stop_after: None,
        progress: false,
    }
}
