//! Types for the contents of a line of a script's output.
ghost use Rattle.std.specs.Prelude.{◌≡◌};
ghost use Rattle.output_parser.specs.Lines.{finding_text};
ghost use Rattle.output_parser.specs.Columns.{column_text, columns_of};
ghost use Rattle.output_parser.specs.Logs.{member_end, member_text};

use rev_core::Rev;

/// The contents of a line of a script's output.
#[derive(Drop)]
pub enum Told {
    /// A document in the output of `show`: the document's id as a JSON string, and the number of `leaf` lines that
    /// follow.
    Document { id: String, count: u64 },
    /// A leaf in the output of `show`: the leaf's known ancestry (the leaf first), and whether the leaf is live.
    Leaf { live: bool, revs: Vec<Rev> },
    /// A document in the output of `conflicts`, with the document's id as a JSON string and the live leaves, the winner
    /// first.
    Conflict { id: String, revs: Vec<Rev> },
    /// A line of `compare` about a document.
    Found(Found),
    /// A line of numbers.
    Row(Row),
    /// A log.
    Log(Log),
    /// A line that pictures do not show, but that begins like output of `couch_replicate`.
    Other,
    /// A line that `couch_replicate` does not print.
    Unknown,
}

/// A line of `compare` about a document.
#[derive(Drop)]
pub struct Found {
    pub finding: Finding,
    /// The id of the compared document as a JSON string.
    pub id: String,
    /// The revisions that the output line of `compare` lists for the document.
    pub revs: Vec<Rev>,
}

/// The finding of `compare` about a document.
#[derive(Clone, Copy, Debug, PartialEq, Eq)]
pub enum Finding {
    /// The target lacks the listed leaves.
    Missing,
    /// The target knows a different parent of the listed revision.
    Contradicts,
    /// The listed leaves have different contents in the source and in the target.
    Differs,
}

impl Finding {
    /// Returns the text at the beginning of a `compare` line that reports the finding `self`.
    pub fn text(self) -> &'static str
        ensures { result.now ≡ finding_text self }
    {
        match self {
            Finding::Missing => "missing ",
            Finding::Contradicts => "contradicts ",
            Finding::Differs => "differs ",
        }
    }
}

/// A line of numbers.
#[derive(Drop)]
pub struct Row {
    pub table: Table,
    /// The database's name for a line of `info`, the session's id for a line of `replicate`, or the empty text for a
    /// line of `compare`.
    pub name: String,
    /// The numbers of the line, one number for each column, in the order of the columns.
    pub numbers: Vec<u64>,
}

/// The kind of a line of numbers, which depends on the command that printed the line.
#[derive(Clone, Copy, Debug, PartialEq, Eq)]
pub enum Table {
    /// The counts of `compare`.
    Compared,
    /// The counts of a database, which `info` prints.
    Info,
    /// The counts of a session, which `replicate` prints.
    Session,
}

impl Table {
    /// Returns the columns of a line of numbers, in order.
    pub fn columns(self) -> &'static [Column]
        ensures { result.now ≡ columns_of self }
    {
        match self {
            Table::Compared => &[
                Column::ComparedDocuments,
                Column::ComparedLeaves,
                Column::ComparedMissing,
                Column::Contradicting,
                Column::Differing,
            ],
            Table::Info => &[
                Column::Seq,
                Column::Life,
                Column::Documents,
                Column::Deleted,
                Column::Leaves,
                Column::Conflicts,
                Column::Revisions,
                Column::Sessions,
            ],
            Table::Session => &[
                Column::From,
                Column::To,
                Column::Checked,
                Column::Found,
                Column::Read,
                Column::Written,
                Column::Failed,
            ],
        }
    }
}

/// The meaning of one number in an output line of numbers with captions, such as the totals of `compare`.
#[derive(Clone, Copy, Debug, PartialEq, Eq)]
pub enum Column {
    /// The counts of `compare`: documents and leaves of the source, leaves that the target lacks, documents with
    /// contradicting revisions, and leaves with different contents.
    ComparedDocuments,
    ComparedLeaves,
    ComparedMissing,
    Contradicting,
    Differing,
    /// The numbers that `info` prints for a database.
    Seq,
    Life,
    Documents,
    Deleted,
    Leaves,
    Conflicts,
    Revisions,
    Sessions,
    /// The numbers that a script's output has for a session.
    From,
    To,
    Checked,
    Found,
    Read,
    Written,
    Failed,
}

impl Column {
    /// Returns the caption of a column, without the space between the caption and the number.
    pub fn text(self) -> &'static str
        ensures { result.now ≡ column_text self }
    {
        match self {
            Column::ComparedDocuments => "compared",
            Column::ComparedLeaves => " documents",
            Column::ComparedMissing => " leaves missing",
            Column::Contradicting => " contradicting",
            Column::Differing => " differing",
            Column::Seq => " seq",
            Column::Life => " life",
            Column::Documents => " documents",
            Column::Deleted => " deleted",
            Column::Leaves => " leaves",
            Column::Conflicts => " conflicts",
            Column::Revisions => " revisions",
            Column::Sessions => " sessions",
            Column::From => " from",
            Column::To => " to",
            Column::Checked => " checked",
            Column::Found => " found",
            Column::Read => " read",
            Column::Written => " written",
            Column::Failed => " failed",
        }
    }
}

/// A log.
#[derive(Drop)]
pub struct Log {
    /// The replication id.
    pub id: String,
    /// The sessions, newest first.
    pub entries: Vec<Entry>,
}

/// A session in a log.
#[derive(Drop)]
pub struct Entry {
    /// The session id.
    pub session: String,
    /// The session's start time, as a script prints it in the log.
    pub begun: String,
    /// The numbers of documents read, of documents written, and of failed writes.
    pub read: u64,
    pub written: u64,
    pub failed: u64,
}

/// A JSON member of the object that describes a session in a printed replication log. The variants are in the order in
/// which the members appear in the log.
#[derive(Clone, Copy, Debug, PartialEq, Eq)]
pub enum Member {
    Failed,
    Read,
    Written,
    End,
    EndTime,
    Checked,
    Found,
    Recorded,
    Session,
    Start,
    StartTime,
}

impl Member {
    /// Returns the text that precedes the member's value in a log.
    pub fn text(self) -> &'static str
        ensures { result.now ≡ member_text self }
    {
        match self {
            Member::Failed => "{\"doc_write_failures\":",
            Member::Read => "\"docs_read\":",
            Member::Written => "\"docs_written\":",
            Member::End => "\"end_last_seq\":",
            Member::EndTime => "\"end_time\":\"",
            Member::Checked => ",\"missing_checked\":",
            Member::Found => "\"missing_found\":",
            Member::Recorded => "\"recorded_seq\":",
            Member::Session => "\"session_id\":\"",
            Member::Start => ",\"start_last_seq\":",
            Member::StartTime => "\"start_time\":\"",
        }
    }

    /// Returns the byte after a member's value: a quotation mark after a string, and a comma after any other value.
    pub fn end(self) -> u8
        ensures { result ≡ member_end self }
    {
        match self {
            Member::EndTime => b'"',
            Member::Session => b'"',
            Member::StartTime => b'"',
            _ => b',',
        }
    }
}
