//! Commands whose output is produced in pieces.
ghost use Rattle.std.specs.Prelude.{◌≡◌, ℕ, List, [], true, option_map, IfOk, IfErr};
ghost use Rattle.script_engine.specs.Serving.{Fits, IsSplit, MayTell, text_with};
ghost use Rattle.script_databases.specs.Databases.{State};
ghost use Rattle.script_databases.specs.declared.refusal.Refusal.TheVariants.{Memory};
ghost use Rattle.command_api.specs.Checks.{needed};
ghost use Rattle.read_commands.specs.Rest.{FitsRest, rest_left, told_begun, told_from};
ghost use Rattle.command_api.specs.Telling.{AnswersIn, told_by};

use crate::rest::Rest;
use script_databases::{Databases, Refusal};
use std::alloc::Global;

/// A read-only command whose output is produced in pieces.
pub trait StreamingCommand<L>: Sized + Drop {
    ghost use Rattle.std.specs.Prelude.{Result};
    ghost use Rattle.serde_json.specs.Data.{Data};
    ghost use Rattle.script_engine.specs.Serving.{Answering};
    ghost use Rattle.script_databases.specs.Databases.{State};
    ghost use Rattle.script_databases.specs.declared.refusal.Refusal.{Refusal};

    // The JSON value of a line.
    ghost seen: { L → Data };

    // The parameters of a streaming command, as contracts describe them.
    ghost Ask: { Type 0 };

    ghost asked: { Self → Ask };

    // The parameters in a JSON object, if every member belongs to the command and has the right type.
    ghost asked_in: { Data → Result Ask Refusal };

    // The possible results of the command, each with the state after the command.
    ghost answers: { Answering State Ask };

    /// Reads the parameters from an object. Returns `None` if the object is not a valid line of the command. The line
    /// then fails with `BadCommand`.
    fn read(line: L) -> Option<Self>
        ensures { needed (option_map asked result) ≡ asked_in (seen line) };

    /// Checks the parameters, and returns a `Rest`, from which the complete output can be produced. Every line may fail
    /// with `Memory`.
    fn begin(&self, alloc: Global, databases: &Databases) -> Result<Rest, Refusal>
        ensures told { MayTell answers databases.now (asked self.now) (told_from databases.now result) databases.now }
        ensures fits { IfOk result (λ rest. FitsRest databases.now rest) };
}

/// Runs a streaming command, and writes the first piece of the command's output to `answer`. If output remains, the
/// call returns a value that represents the remaining output. If output remains after the first piece, the first piece
/// has at least 65,536 bytes.
#[inline(never)]
pub fn begin_in<L, A: StreamingCommand<L>>(
    alloc: Global,
    databases: &Databases,
    line: L,
    answer: &mut Vec<u8>,
) -> Result<Option<Rest>, Refusal>
    requires empty { answer.old.items ≡ [] }
    ensures told { MayTell (AnswersIn A.answers) databases.now (A.asked_in (A.seen line))
        (told_begun databases.now result answer.new.items) databases.now }
    ensures fits { IfOk result (λ rest. Fits (FitsRest databases.now) rest) }
    ensures split { IfOk result (λ rest. IsSplit 65536 (rest_left databases.now) true answer.new.items rest) }
{
    let ask = match A::read(line) {
        Some(ask) => ask,
        None => return Err(Refusal::BadCommand),
    };
    let rest = match ask.begin(alloc, databases) {
        Ok(rest) => rest,
        Err(refusal) => return Err(refusal),
    };
    give(alloc, databases, rest, answer)
}

/// Produces the first piece of a command's output, and returns the rest of the output.
fn give(
    alloc: Global,
    databases: &Databases,
    mut rest: Rest,
    answer: &mut Vec<u8>,
) -> Result<Option<Rest>, Refusal>
    requires empty { answer.old.items ≡ [] }
    requires fits { FitsRest databases.now rest }
    ensures told { IfOk result (λ left. text_with (rest_left databases.now) answer.new.items left
        ≡ rest_left databases.now rest) }
    ensures fits { IfOk result (λ left. Fits (FitsRest databases.now) left) }
    ensures split { IfOk result (λ left. IsSplit 65536 (rest_left databases.now) true answer.new.items left) }
    ensures memory { IfErr result (λ refusal. refusal ≡ Memory) }
{
    if rest.more(alloc, databases, answer)? {
        return Ok(Some(rest));
    }
    Ok(None)
}

/// Returns the result of a command whose complete output is in the first piece.
pub fn whole(served: Result<(), Refusal>) -> Result<Option<Rest>, Refusal>
    ensures told { (s : State) → (text : List ℕ) → told_begun s result text ≡ told_by served text }
    ensures fits { (s : State) → IfOk result (λ rest. Fits (FitsRest s) rest) }
    ensures split { (s : State) → (piece : List ℕ)
        → IfOk result (λ rest. IsSplit 65536 (rest_left s) true piece rest) }
{
    match served {
        Ok(()) => Ok(None),
        Err(refusal) => Err(refusal),
    }
}
