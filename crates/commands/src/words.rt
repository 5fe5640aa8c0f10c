//! Selects and runs the commands of a script by name (docs/PROFILE.md, "Command lines", "Order of checks" and
//! "Answers").
ghost use Rattle.std.specs.Prelude.{◌≡◌, [], true, IfOk};
ghost use Rattle.json_values.specs.LineView.{line_view};
ghost use Rattle.script_engine.specs.Serving.{Fits, IsSplit, MayTell};
ghost use Rattle.command_api.specs.Telling.{AnswersIn};
ghost use Rattle.read_commands.specs.Rest.{FitsRest, rest_left, told_begun};
ghost use Rattle.commands.specs.Script.{AnswersAsked};
ghost use Rattle.commands.specs.words.{asked_if, asked_in};

use command_api::{Command, serve_in, text_member};
use json_values::{Line, LineValue, is_same_text};
use read_commands::{
    Audit, Changes, Compare, Conflicts, Doc, Docs, Info, Ledger, Log, Rest, Show, begin_in, whole,
};
use script_databases::{Databases, Refusal};
use std::alloc::Global;
use std::sync::Wait;
use std::thread::Threads;
use write_commands::{Backup, BothWays, Edit, Load, Replicate, Restore};

/// The names of the commands.
#[derive(Clone, Copy, Drop)]
enum CommandName {
    Load,
    Edit,
    Show,
    Doc,
    Changes,
    Log,
    Audit,
    Replicate,
    Backup,
    Restore,
    Compare,
    Conflicts,
    Docs,
    Info,
    Ledger,
    Sync,
}

/// Reads the command name from the member `do` of an object.
fn command_name_of(value: &LineValue<'_>) -> Option<CommandName>
    ensures { asked_in (line_view value.now) ≡ asked_if result (line_view value.now) }
{
    match text_member(value, "do") {
        Some(name) if is_same_text(name, "load") => Some(CommandName::Load),
        Some(name) if is_same_text(name, "edit") => Some(CommandName::Edit),
        Some(name) if is_same_text(name, "show") => Some(CommandName::Show),
        Some(name) if is_same_text(name, "doc") => Some(CommandName::Doc),
        Some(name) if is_same_text(name, "changes") => Some(CommandName::Changes),
        Some(name) if is_same_text(name, "log") => Some(CommandName::Log),
        Some(name) if is_same_text(name, "audit") => Some(CommandName::Audit),
        Some(name) if is_same_text(name, "replicate") => Some(CommandName::Replicate),
        Some(name) if is_same_text(name, "backup") => Some(CommandName::Backup),
        Some(name) if is_same_text(name, "restore") => Some(CommandName::Restore),
        Some(name) if is_same_text(name, "compare") => Some(CommandName::Compare),
        Some(name) if is_same_text(name, "conflicts") => Some(CommandName::Conflicts),
        Some(name) if is_same_text(name, "docs") => Some(CommandName::Docs),
        Some(name) if is_same_text(name, "info") => Some(CommandName::Info),
        Some(name) if is_same_text(name, "ledger") => Some(CommandName::Ledger),
        Some(name) if is_same_text(name, "sync") => Some(CommandName::Sync),
        _ => None,
    }
}

/// Runs the command that the member `do` of a line's JSON object names, and writes the command's output into the buffer
/// `answer`. If the buffer gets only the first piece of the output, the call returns the rest. The call may block if
/// the command is `replicate` or `sync`.
pub fn serve<H: Threads + Wait + Sync>(
    rt: &H,
    alloc: Global,
    databases: &mut Databases,
    line: &Line<'_>,
    answer: &mut Vec<u8>,
) -> Result<Option<Rest>, Refusal>
    requires empty { answer.old.items ≡ [] }
    ensures told { MayTell AnswersAsked databases.old (asked_in (line_view line.now))
        (told_begun databases.new result answer.new.items) databases.new }
    ensures fits { IfOk result (λ rest. Fits (FitsRest databases.new) rest) }
    ensures split { IfOk result (λ rest. IsSplit 65536 (rest_left databases.new) true answer.new.items rest) }
{
    let Some(word) = command_name_of(line.value()) else {
        return Err(Refusal::BadCommand);
    };
    match word {
        CommandName::Load => serve_whole::<&Line<'_>, Load<'_, '_>, H>(
            rt, alloc, databases, line, answer,
        ),
        CommandName::Edit => serve_whole::<&Line<'_>, Edit<'_, '_>, H>(
            rt, alloc, databases, line, answer,
        ),
        CommandName::Show => serve_whole::<&Line<'_>, Show<'_>, H>(
            rt, alloc, databases, line, answer,
        ),
        CommandName::Doc => serve_whole::<&Line<'_>, Doc<'_>, H>(
            rt, alloc, databases, line, answer,
        ),
        CommandName::Changes => serve_whole::<&Line<'_>, Changes<'_>, H>(
            rt, alloc, databases, line, answer,
        ),
        CommandName::Log => serve_whole::<&Line<'_>, Log<'_, '_>, H>(
            rt, alloc, databases, line, answer,
        ),
        CommandName::Audit => serve_whole::<&Line<'_>, Audit<'_, '_>, H>(
            rt, alloc, databases, line, answer,
        ),
        CommandName::Replicate => serve_whole::<&Line<'_>, Replicate<'_, '_>, H>(
            rt, alloc, databases, line, answer,
        ),
        CommandName::Backup => serve_whole::<&Line<'_>, Backup<'_>, H>(
            rt, alloc, databases, line, answer,
        ),
        CommandName::Restore => serve_whole::<&Line<'_>, Restore<'_>, H>(
            rt, alloc, databases, line, answer,
        ),
        CommandName::Compare => begin_in::<&Line<'_>, Compare<'_, '_>>(
            alloc, databases, line, answer,
        ),
        CommandName::Conflicts => begin_in::<&Line<'_>, Conflicts<'_>>(
            alloc, databases, line, answer,
        ),
        CommandName::Docs => begin_in::<&Line<'_>, Docs<'_, '_>>(alloc, databases, line, answer),
        CommandName::Info => serve_whole::<&Line<'_>, Info<'_>, H>(
            rt, alloc, databases, line, answer,
        ),
        CommandName::Ledger => serve_whole::<&Line<'_>, Ledger<'_>, H>(
            rt, alloc, databases, line, answer,
        ),
        CommandName::Sync => serve_whole::<&Line<'_>, BothWays<'_, '_>, H>(
            rt, alloc, databases, line, answer,
        ),
    }
}

/// Runs a command whose complete output is in the first piece.
fn serve_whole<L, C: Command<L>, H: Threads + Wait + Sync>(
    rt: &H,
    alloc: Global,
    databases: &mut Databases,
    line: L,
    answer: &mut Vec<u8>,
) -> Result<Option<Rest>, Refusal>
    requires empty { answer.old.items ≡ [] }
    ensures told { MayTell (AnswersIn C.answers) databases.old (C.asked_in (C.seen line))
        (told_begun databases.new result answer.new.items) databases.new }
    ensures fits { IfOk result (λ rest. Fits (FitsRest databases.new) rest) }
    ensures split { IfOk result (λ rest. IsSplit 65536 (rest_left databases.new) true answer.new.items rest) }
{
    whole(serve_in::<L, C, H>(rt, alloc, databases, line, answer))
}
