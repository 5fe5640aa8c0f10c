//! Writes the explanation of a failed line.
ghost use Rattle.std.specs.Prelude.{◌≡◌, ℕ, ◌++◌, List, OnOk, string_bytes};
ghost use Rattle.error_messages.specs.Told.{AddsSeen, IsTold, beginning};

use crate::commands::{CommandFault, fault_of};
use crate::places::push_place;
use crate::sentences::sentence_of;
use crate::texts::{push_named, push_words};
use itoa::Buffer;
use json_values::{LineValue, ValueReader, is_same_text};
use std::alloc::{AllocError, Global};

/// Appends an explanation: the line's number, the error name, the part at fault if this part is known, and the meaning
/// of the error name (docs/PROFILE.md, "Names of refusals"). The part at fault is a command, a member, a document or a
/// database. The explanation prints strings of the failed line as JSON strings.
///
/// The contract guarantees that the explanation is one line without hidden characters, such as control characters. The
/// contract does not specify the text that explains the reason of the error.
///
/// # Errors
///
/// Returns `AllocError` if an allocation fails. A call that returns an error may have appended a part of the
/// explanation.
pub fn explain(
    values: &mut ValueReader,
    alloc: Global,
    number: u64,
    line: &[u8],
    name: &str,
    text: &mut String,
) -> Result<(), AllocError>
    ensures told { OnOk result (IsTold number name.now (string_bytes text.old) (string_bytes text.new)) }
{
    push_beginning(text, number, name)?;
    push_reason(values, alloc, line, name, text)?;
    text.push_str("\n")
}

/// Appends the number of the line and the error name.
fn push_beginning(text: &mut String, number: u64, name: &str) -> Result<(), AllocError>
    ensures { OnOk result (string_bytes text.new ≡ string_bytes text.old ++ beginning number name.now) }
{
    let mut digits = Buffer::new();
    text.push_str("line ")?;
    text.push_str(digits.format(number))?;
    text.push_str(": ")?;
    text.push_str(name)?;
    text.push_str(": ")
}

/// Appends the part of the line that is at fault (a command, member, document or database), and the meaning of the
/// error name.
fn push_reason(
    values: &mut ValueReader,
    alloc: Global,
    line: &[u8],
    name: &str,
    text: &mut String,
) -> Result<(), AllocError>
    ensures { OnOk result (AddsSeen (string_bytes text.old) (string_bytes text.new)) }
{
    match values.read_line(alloc, line) {
        Ok(line) => push_read_reason(text, name, line.value()),
        Err(_) => push_words(text, sentence_of(name)),
    }
}

/// Appends the part of the object that is at fault, and the meaning of the error name.
fn push_read_reason(text: &mut String, name: &str, object: &LineValue<'_>) -> Result<(), AllocError>
    ensures { OnOk result (AddsSeen (string_bytes text.old) (string_bytes text.new)) }
{
    if is_same_text("BadCommand", name) {
        return push_fault(text, &fault_of(object));
    }
    push_place(text, name, object)?;
    push_words(text, sentence_of(name))
}

/// Appends the reason why an object is not a command.
fn push_fault(text: &mut String, fault: &CommandFault<'_>) -> Result<(), AllocError>
    ensures { OnOk result (AddsSeen (string_bytes text.old) (string_bytes text.new)) }
{
    match fault {
        CommandFault::NoWord => push_words(
            text,
            "a command must have a member \"do\" that is a string",
        ),
        CommandFault::UnknownWord(word) => push_named(text, "unknown command ", word),
        CommandFault::UnknownMember(member) => push_named(text, "unknown member ", member),
        CommandFault::Missing(member) => push_named(text, "missing member ", member),
        CommandFault::WrongKind(member, wanted) => push_wrong_kind(text, member, wanted),
        CommandFault::NoneSeen => push_words(text, sentence_of("BadCommand")),
    }
}

/// Appends the name of a member and the type that the member must have.
fn push_wrong_kind(text: &mut String, member: &str, wanted: &str) -> Result<(), AllocError>
    ensures { OnOk result (AddsSeen (string_bytes text.old) (string_bytes text.new)) }
{
    push_named(text, "member ", member)?;
    push_words(text, " ")?;
    push_words(text, wanted)
}
