//! Places in a response.

use thiserror::Error;

/// What the caller requests: the items that the parser looks for, and the kind of input.
#[derive(Clone, Copy, Debug, PartialEq, Eq)]
pub enum Wanted {
    /// Documents in CouchDB responses. The parser skips objects without a document.
    Documents,
    /// Documents in CouchDB responses. The parser wraps each document in an envelope, and skips objects without a
    /// document.
    Enveloped,
    /// Documents in CouchDB responses. The parser rejects objects without a document.
    Bodies,
    /// Documents in CouchDB responses. The parser unwraps each document from its envelope. The parser rejects objects
    /// without a document.
    Unfolded,
    /// Document ids and revisions in a changes feed or a `_revs_diff` response.
    Leaves,
    /// Document ids and revisions in the `change` lines of a script's output.
    Changes,
}

/// The kind of a JSON member, which the parser derives from the member's name. A member's kind says how the parser
/// reads the member's value.
#[derive(Clone, Copy, Debug, PartialEq, Eq)]
pub enum Name {
    /// A member `_id` that comes first in an object, which is therefore a document or a log.
    Plain,
    /// The first member of an item in the outermost object's list `docs`, if the member is not `_id`. An item of the
    /// list `docs` is a document if it has a member `_id`.
    Item,
    /// A member `ok` or `doc`, whose value is a document if it is an object.
    Document,
    /// A member `id`, whose value is a document id.
    Id,
    /// A member whose value is a list of objects, which may be documents or leaves.
    List,
    /// The member `docs` of an outermost object, whose value is a list of objects.
    Docs,
    /// A member `changes`, whose value is a list of a document's revisions. The document's `id` must precede `changes`
    /// in the same object.
    Changes,
    /// A member `rev` in a document's list of revisions.
    Rev,
    /// A member `missing` in a `_revs_diff` response, whose value is a list of missing revisions.
    Missing,
    /// A member, such as `missing` or `error`, that replaces a document in a response. The parser skips the member, and
    /// counts it as skipped.
    Passed,
    /// A member `last_seq` or `db_info`. The parser does not count an object with this member as skipped, even if the
    /// object has no document. The member `last_seq` ends a changes feed, and `db_info` belongs to the first object of
    /// a PouchDB dump.
    Last,
    /// A member `seq` that comes first in an outermost object. An outermost object with only the member `seq` belongs
    /// to a PouchDB dump.
    Seq,
    /// The member `error` of a CouchDB error.
    Error,
    /// The member `reason` of a CouchDB error.
    Reason,
    /// A member whose value the parser ignores.
    Other,
    /// A member that shows that its object is not a document. The parser rejects the member with `NoDocument`.
    Foreign,
}

/// The kind of the item that the last byte completed.
#[derive(Clone, Copy, Debug, PartialEq, Eq)]
pub enum Found {
    /// Nothing.
    Nothing,
    /// The text of a document.
    Document,
    /// The text of a document id, with its quotation marks.
    Id,
    /// The text of a revision, with its quotation marks.
    Rev,
}

/// The reason why the parser rejected its input.
#[derive(Clone, Copy, Debug, PartialEq, Eq, Error)]
pub enum Refusal {
    /// The input is not JSON in UTF-8, or is nested deeper than 128.
    #[error("NotJson")]
    NotJson,
    /// The input is JSON, but not a response of a known form.
    #[error("NoAnswer")]
    NoAnswer,
    /// The input ends inside a response.
    #[error("CutOff")]
    CutOff,
    /// The input has an object that is not a document, but the caller allows only documents.
    #[error("NoDocument")]
    NoDocument,
    /// The input has a document that cannot be wrapped, or an envelope that cannot be unwrapped.
    #[error("NotWhole")]
    NotWhole,
    /// The input is CouchDB's error response.
    #[error("CouchError")]
    CouchError,
    /// The input is compressed.
    #[error("Gzip")]
    Gzip,
    /// The input is HTML.
    #[error("Html")]
    Html,
    /// The input has HTTP headers.
    #[error("Headers")]
    Headers,
    /// The input is a multipart response.
    #[error("Multipart")]
    Multipart,
    /// The input begins with a byte order mark.
    #[error("ByteOrderMark")]
    ByteOrderMark,
}

/// The parser's place in a line of a script's output, which says what the next byte belongs to.
#[derive(Clone, Copy, Debug, PartialEq, Eq)]
pub enum LinePlace {
    /// The next byte is in the first word of the line.
    Word,
    /// The next byte is in the part of the line that the parser ignores.
    Rest,
    /// The next byte is in the sequence of a `change` line.
    Seq,
    /// The next byte must be the opening quotation mark of the document id in a `change` line.
    BeforeId,
    /// The next byte is in the document id of a `change` line.
    Id,
    /// The next byte follows a backslash in the document id of a `change` line.
    IdEscape,
    /// The next byte follows the document id of a `change` line.
    AfterId,
    /// The next byte is at the start of a revision of a `change` line.
    BeforeRev,
    /// The next byte is in a revision of a `change` line.
    Rev,
}

/// The parser's place in a list of missing revisions, which says what the next byte belongs to.
#[derive(Clone, Copy, Debug, PartialEq, Eq)]
pub enum RevPlace {
    /// The next byte must be white space or the opening bracket of a list of missing revisions.
    List,
    /// The next byte follows the opening bracket of a list of missing revisions.
    First,
    /// The next byte follows a comma in a list of missing revisions.
    Next,
    /// The next byte is in a string of a list of missing revisions.
    Rev,
    /// The next byte follows a backslash in a string of a list of missing revisions.
    Escape,
    /// The next byte follows a complete string in a list of missing revisions.
    Behind,
}

/// The parser's place in a response, which says what the next byte belongs to.
#[derive(Clone, Copy, Debug, PartialEq, Eq)]
pub enum Place {
    /// No response has begun yet, and the input must not end here.
    Start,
    /// No response has begun yet, and the input may end here.
    Begin,
    /// The input is not a response, but its first bytes may belong to another known format, such as HTML.
    Sign,
    /// The next byte follows a response.
    Between,
    /// The next byte follows the opening bracket of a JSON list.
    Item,
    /// The next byte follows a comma between two items of a list.
    NextItem,
    /// The next byte follows an item of a list.
    AfterItem,
    /// The next byte follows the opening brace of a JSON object.
    Member,
    /// The next byte follows a comma between two members of an object.
    NextMember,
    /// The next byte follows a member whose value is a list or a document's entry.
    AfterMember,
    /// The next byte is in a member's name.
    Key,
    /// The next byte follows a backslash in a member's name.
    KeyEscape,
    /// The next byte follows a member's name.
    Colon(Name),
    /// The next byte follows a colon. The member's value may be a document's entry in a `_revs_diff` response.
    Ahead(Name),
    /// The next byte must be white space or the opening bracket of a list of objects.
    List,
    /// The next byte is in a member's value.
    Value(Name),
    /// The next byte is in a string of a member's value.
    Quoted(Name),
    /// The next byte follows a backslash in a string of a member's value.
    Escaped(Name),
    /// The next byte is in a list of missing revisions.
    Revs(RevPlace),
    /// The next byte is in a line of a script's output.
    Line(LinePlace),
    /// The parser has rejected a byte, and reads no further byte.
    Refused(Refusal),
}
