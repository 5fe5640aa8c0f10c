//! `log`: prints the log of a replication at its source or its target.
ghost use Rattle.std.specs.Prelude.{◌≡◌, ◌++◌, OnOk, IfOk};
ghost use Rattle.json_values.specs.LineView.{line_view};
ghost use Rattle.repl_peer.specs.logs.Checkpoint.{rep_between};
ghost use Rattle.command_api.specs.Texts.{ended};
ghost use Rattle.read_commands.specs.Log.{log_held, side_at};

use command_api::{
    Command, has_only_members, name_member, optional_texts, read_choice, text_member,
};
use json_values::{Line, LineValue};
use repl_log::{RepId, write_log};
use repl_target::{Peer, Rules, rep_between};
use script_databases::{Databases, Refusal};
use std::alloc::{AllocError, Global};
use std::sync::Wait;
use std::thread::Threads;

/// The parameters of a `log` line.
#[derive(Drop)]
pub struct Log<'v, 'a> {
    pub source: &'v str,
    pub target: &'v str,
    pub side: Side,
    /// The ids of the selected documents, which are strings. If the line gives no ids, all documents are selected.
    pub doc_ids: Option<&'v [LineValue<'a>]>,
}

/// The side of a replication: the source or the target.
#[derive(Clone, Copy, Debug, PartialEq, Eq)]
pub enum Side {
    Source,
    Target,
}

impl<'v, 'a> Command<&'v Line<'a>> for Log<'v, 'a> {
    ghost use Rattle.read_commands.specs.Log.{LogAsk, Logs, log_asked, log_in};

    ghost seen = { λ line. line_view line.now };

    ghost Ask = { LogAsk };

    ghost asked = { log_asked };

    ghost asked_in = { log_in };

    ghost answers = { Logs };

    fn read(line: &'v Line<'a>) -> Option<Log<'v, 'a>> {
        let value = line.value();
        let source = name_member(value, "source")?;
        let target = name_member(value, "target")?;
        let side = side_member(value)?;
        let doc_ids = optional_texts(value, "doc_ids")?;
        if !has_only_members(value, &["do", "source", "target", "side", "doc_ids"]) {
            return None;
        }
        Some(Log {
            source,
            target,
            side,
            doc_ids,
        })
    }

    /// Runs `log`.
    fn serve<H: Threads + Wait + Sync>(
        &self,
        _rt: &H,
        alloc: Global,
        databases: &mut Databases,
        answer: &mut Vec<u8>,
    ) -> Result<(), Refusal> {
        let Some(source) = databases.find(self.source) else {
            return Err(Refusal::NoDatabase);
        };
        let Some(target) = databases.find(self.target) else {
            return Err(Refusal::NoDatabase);
        };
        let chosen = read_choice(alloc, self.doc_ids)?;
        let rep = rep_between(source, target, chosen.as_ref())?;
        let log = log_held(alloc, source, target, self.side, &rep)?;
        let text = write_log(alloc, &rep, &log)?;
        print(answer, text.as_slice())?;
        Ok(())
    }
}

/// Reads the required member `side` of a line.
fn side_member(value: &LineValue<'_>) -> Option<Side>
    ensures { result ≡ side_at (line_view value.now) }
{
    match text_member(value, "side") {
        Some("source") => Some(Side::Source),
        Some("target") => Some(Side::Target),
        _ => None,
    }
}

/// Returns the log of a replication at its source or its target.
fn log_held(
    alloc: Global,
    source: &Peer<Rules>,
    target: &Peer<Rules>,
    side: Side,
    rep: &RepId,
) -> Result<repl_log::Log, AllocError>
    requires { rep.now ≡ rep_between source.now.1 target.now.1 rep.now.chosen }
    ensures { IfOk result (λ log. log ≡ log_held side source.now.1 target.now.1 rep.now.chosen) }
{
    match side {
        Side::Source => source.source_log(alloc, rep),
        Side::Target => target.target_log(alloc, rep),
    }
}

/// Prints the text of a log.
fn print(answer: &mut Vec<u8>, text: &[u8]) -> Result<(), AllocError>
    ensures { OnOk result (answer.new.items ≡ answer.old.items ++ ended text.now) }
{
    answer.extend_from_slice(text)?;
    answer.extend_from_slice(b"\n")
}
