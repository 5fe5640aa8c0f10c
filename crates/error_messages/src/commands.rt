//! Finds the reason why an object is not a command, such as an unknown command, an unknown member, or a member of a
//! wrong type (docs/PROFILE.md, "Command lines").

use json_values::{LineValue, is_same_text};
use uuid::Uuid;

/// The type of a member's value.
#[derive(Drop)]
pub(crate) enum Kind {
    /// A database name, which has 1 to 32 ASCII letters, digits, `-` or `_`.
    Name,
    /// A string.
    Text,
    /// A list of strings.
    Texts,
    /// An integer from 0 to 2^64 - 1.
    Whole,
    /// A Boolean.
    Flag,
    /// A UUID.
    Uuid,
    /// `source` or `target`.
    Side,
    /// Any value.
    Any,
}

/// A member of a command: its name, its type, and whether it is required.
type Member = (&'static str, Kind, bool);

/// A table of all commands. Each row lists the members of a command, except `do`.
static WORDS: &[(&str, &[Member])] = &[
    (
        "load",
        &[
            ("db", Kind::Name, true),
            ("uuid", Kind::Uuid, false),
            ("doc", Kind::Any, false),
        ],
    ),
    (
        "edit",
        &[
            ("db", Kind::Name, true),
            ("id", Kind::Text, true),
            ("parent", Kind::Text, false),
            ("deleted", Kind::Flag, false),
            ("body", Kind::Any, false),
        ],
    ),
    (
        "show",
        &[("db", Kind::Name, true), ("id", Kind::Text, true)],
    ),
    (
        "doc",
        &[
            ("db", Kind::Name, true),
            ("id", Kind::Text, true),
            ("rev", Kind::Text, false),
        ],
    ),
    (
        "changes",
        &[("db", Kind::Name, true), ("since", Kind::Whole, false)],
    ),
    (
        "replicate",
        &[
            ("source", Kind::Name, true),
            ("target", Kind::Name, true),
            ("doc_ids", Kind::Texts, false),
            ("session", Kind::Uuid, false),
            ("workers", Kind::Whole, false),
            ("batch", Kind::Whole, false),
            ("at", Kind::Whole, false),
            ("stop_after", Kind::Whole, false),
            ("alone", Kind::Flag, false),
            ("progress", Kind::Flag, false),
        ],
    ),
    (
        "log",
        &[
            ("source", Kind::Name, true),
            ("target", Kind::Name, true),
            ("side", Kind::Side, true),
            ("doc_ids", Kind::Texts, false),
        ],
    ),
    (
        "audit",
        &[
            ("source", Kind::Name, true),
            ("target", Kind::Name, true),
            ("doc_ids", Kind::Texts, false),
        ],
    ),
    (
        "backup",
        &[("db", Kind::Name, true), ("name", Kind::Name, true)],
    ),
    (
        "restore",
        &[("db", Kind::Name, true), ("name", Kind::Name, true)],
    ),
    (
        "compare",
        &[
            ("source", Kind::Name, true),
            ("target", Kind::Name, true),
            ("doc_ids", Kind::Texts, false),
        ],
    ),
    ("conflicts", &[("db", Kind::Name, true)]),
    (
        "docs",
        &[
            ("db", Kind::Name, true),
            ("since", Kind::Whole, false),
            ("doc_ids", Kind::Texts, false),
        ],
    ),
    ("info", &[("db", Kind::Name, true)]),
    (
        "ledger",
        &[("target", Kind::Name, true), ("session", Kind::Uuid, true)],
    ),
    (
        "sync",
        &[
            ("a", Kind::Name, true),
            ("b", Kind::Name, true),
            ("doc_ids", Kind::Texts, false),
            ("there", Kind::Uuid, false),
            ("back", Kind::Uuid, false),
            ("workers", Kind::Whole, false),
            ("batch", Kind::Whole, false),
            ("at", Kind::Whole, false),
            ("alone", Kind::Flag, false),
        ],
    ),
];

/// The reason why an object is not a command. If an object has several faults, the search returns the fault that it
/// finds first.
#[derive(Drop)]
pub(crate) enum CommandFault<'v> {
    /// The object has no member `do`, or its member `do` is not a string.
    NoWord,
    /// The command is unknown.
    UnknownWord(&'v str),
    /// The object has a member whose name the command does not allow. The variant's field is the name of this member.
    UnknownMember(&'v str),
    /// A required member is missing.
    Missing(&'static str),
    /// A member has a wrong type.
    WrongKind(&'static str, &'static str),
    /// No reason was found.
    NoneSeen,
}

/// Finds out why an object is not a command.
pub(crate) fn fault_of<'v>(object: &'v LineValue<'_>) -> CommandFault<'v> {
    let word = match object.get("do") {
        Some(value) => value.as_str(),
        None => None,
    };
    let Some(word) = word else {
        return CommandFault::NoWord;
    };
    match members_of(word) {
        Some(members) => fault_among(object, members),
        None => CommandFault::UnknownWord(word),
    }
}

/// Returns the members of the command with the given name, or `None` if no command has this name.
fn members_of(word: &str) -> Option<&'static [Member]> {
    for row in WORDS {
        if is_same_text(word, row.0) {
            return Some(row.1);
        }
    }
    None
}

/// Finds out why an object does not have the form of a given command.
fn fault_among<'v>(object: &'v LineValue<'_>, members: &'static [Member]) -> CommandFault<'v> {
    for member in members {
        match object.get(member.0) {
            Some(value) if !is_of_kind(value, &member.1) => {
                return CommandFault::WrongKind(member.0, wanted(&member.1));
            }
            None if member.2 => return CommandFault::Missing(member.0),
            _ => {}
        }
    }
    unknown_member(object, members)
}

/// Finds the object's first member whose name the command does not allow.
fn unknown_member<'v>(object: &'v LineValue<'_>, members: &'static [Member]) -> CommandFault<'v> {
    let Some(given) = object.as_object() else {
        return CommandFault::NoWord;
    };
    for entry in given {
        if !is_same_text("do", entry.0) && !is_among(entry.0, members) {
            return CommandFault::UnknownMember(entry.0);
        }
    }
    CommandFault::NoneSeen
}

/// Whether one of the command's members has a given name.
fn is_among(name: &str, members: &'static [Member]) -> bool {
    for member in members {
        if is_same_text(name, member.0) {
            return true;
        }
    }
    false
}

/// Whether a JSON value has the type of a command's member.
fn is_of_kind(value: &LineValue<'_>, kind: &Kind) -> bool {
    match kind {
        Kind::Name => is_text_where(value, is_name),
        Kind::Text => value.as_str().is_some(),
        Kind::Texts => are_texts(value),
        Kind::Whole => value.as_u64().is_some(),
        Kind::Flag => value.as_bool().is_some(),
        Kind::Uuid => is_text_where(value, is_uuid),
        Kind::Side => is_text_where(value, is_side),
        Kind::Any => true,
    }
}

/// Whether a value is a string for which the function `holds` returns true.
fn is_text_where(value: &LineValue<'_>, holds: fn(&str) -> bool) -> bool
    requires { IsAlwaysCallable holds }
{
    match value.as_str() {
        Some(text) => holds(text),
        None => false,
    }
}

/// Whether a value is a list of strings.
fn are_texts(value: &LineValue<'_>) -> bool {
    let Some(items) = value.as_array() else {
        return false;
    };
    for item in items {
        if item.as_str().is_none() {
            return false;
        }
    }
    true
}

/// Whether a string is a valid name of a database.
fn is_name(text: &str) -> bool {
    let bytes = text.as_bytes();
    !bytes.is_empty()
        && bytes.len() <= 32
        && bytes.iter().all(|b| matches!(*b, b'0'..=b'9' | b'A'..=b'Z' | b'a'..=b'z' | b'-' | b'_'))
}

/// Whether a string is a UUID.
fn is_uuid(text: &str) -> bool {
    Uuid::parse_str(text).is_ok()
}

/// Whether a string names a side of a replication (`source` or `target`).
fn is_side(text: &str) -> bool {
    is_same_text("source", text) || is_same_text("target", text)
}

/// Describes a type.
fn wanted(kind: &Kind) -> &'static str {
    match kind {
        Kind::Name => "must be 1 to 32 letters, digits, - or _",
        Kind::Text => "must be a string",
        Kind::Texts => "must be a list of strings",
        Kind::Whole => "must be a non-negative integer",
        Kind::Flag => "must be true or false",
        Kind::Uuid => "must be a UUID",
        Kind::Side => "must be \"source\" or \"target\"",
        Kind::Any => "may be any value",
    }
}
