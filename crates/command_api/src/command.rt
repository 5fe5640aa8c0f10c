//! Defines the trait of commands, and the function that runs a line as a command.
ghost use Rattle.std.specs.Prelude.{◌≡◌, [], option_map};
ghost use Rattle.script_engine.specs.Serving.{MayTell};
ghost use Rattle.command_api.specs.Checks.{needed};
ghost use Rattle.command_api.specs.Telling.{AnswersIn, told_by};

use script_databases::{Databases, Refusal};
use std::alloc::Global;
use std::sync::Wait;
use std::thread::Threads;

/// A command of scripts, which reads its parameters from a line, runs, and prints its output. A value of the
/// implementing type holds the parameters of a command, and borrows from the line.
pub trait Command<L>: Sized + Drop {
    ghost use Rattle.std.specs.Prelude.{Result};
    ghost use Rattle.std.specs.Thread.{IsSync};
    ghost use Rattle.serde_json.specs.Data.{Data};
    ghost use Rattle.script_engine.specs.Serving.{Answering};
    ghost use Rattle.script_databases.specs.Databases.{State};
    ghost use Rattle.script_databases.specs.declared.refusal.Refusal.{Refusal};

    // The JSON value of a line.
    ghost seen: { L → Data };

    // The type that contracts use for the command's parameters.
    ghost Ask: { Type 0 };

    ghost asked: { Self → Ask };

    // The parameters in a JSON object, or the error `BadCommand` if the object is not a valid command.
    ghost asked_in: { Data → Result Ask Refusal };

    // The relation that specifies a command. The relation has four arguments: the state before the command, the
    // parameters, the result, and the state after the command.
    ghost answers: { Answering State Ask };

    /// Reads the command's parameters from the object of a line. Returns `None` if the object is not a valid command.
    /// `serve_in` then returns `BadCommand`.
    fn read(line: L) -> Option<Self>
        ensures { needed (option_map asked result) ≡ asked_in (seen line) };

    /// Runs the command, and writes its output into the buffer. The relation `answers` defines the results that the
    /// command may return. Every command may also fail with `Memory`, even if `answers` does not allow this error. If
    /// `answers` does not allow `Memory` and the command fails with `Memory`, the command changed nothing, or succeeded
    /// without storing its output.
    fn serve<H: Threads + Wait + Sync>(
        &self,
        rt: &H,
        alloc: Global,
        databases: &mut Databases,
        answer: &mut Vec<u8>,
    ) -> Result<(), Refusal>
        requires sync { IsSync H.row }
        requires empty { answer.old.items ≡ [] }
        ensures { MayTell answers databases.old (asked self.now) (told_by result answer.new.items) databases.new };
}

/// Reads the command of a line, and runs this command.
#[inline(never)]
pub fn serve_in<L, A: Command<L>, H: Threads + Wait + Sync>(
    rt: &H,
    alloc: Global,
    databases: &mut Databases,
    line: L,
    answer: &mut Vec<u8>,
) -> Result<(), Refusal>
    requires empty { answer.old.items ≡ [] }
    ensures { MayTell (AnswersIn A.answers) databases.old (A.asked_in (A.seen line))
        (told_by result answer.new.items) databases.new }
{
    match A::read(line) {
        Some(ask) => ask.serve(rt, alloc, databases, answer),
        None => Err(Refusal::BadCommand),
    }
}
