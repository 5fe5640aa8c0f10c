//! The meaning of each error name (docs/PROFILE.md, "Names of refusals").

use json_values::is_same_text;

/// A table of the errors of failed lines, with each error's name and meaning. The table omits errors that no line is
/// expected to cause.
static SENTENCES: &[(&str, &str)] = &[
    (
        "Attachments",
        "documents with attachments are not accepted; couch_lines load --whole puts them into envelopes",
    ),
    ("BadBatch", "batch must be 1 to 10000"),
    ("BadCommand", "the object is not a command"),
    (
        "BadGeneration",
        "a revision id must begin with a generation and a hyphen",
    ),
    ("BadLine", "the line is not a JSON object"),
    ("BadMoment", "the timestamp must be before the year 10000"),
    (
        "BadRevisions",
        "_revisions must be an ancestry, newest first: {\"start\":N,\"ids\":[..]} with at most N ids",
    ),
    (
        "BadSig",
        "a revision id must have a signature after its first hyphen: 1 to 64 letters, digits, hyphens, underscores or periods",
    ),
    ("BackupExists", "the database has a backup of that name"),
    (
        "BoardFull",
        "a counter of the progress board would exceed its limit",
    ),
    (
        "Conflict",
        "\"parent\" is not a leaf of the document, or it is missing and the document has a live leaf; list the leaves with show",
    ),
    (
        "Contradiction",
        "a given revision has another parent in the document's tree",
    ),
    ("CountFull", "a count of the session would exceed its limit"),
    (
        "DatabaseExists",
        "a UUID is given for a database that exists",
    ),
    (
        "EmptyLog",
        "this replication has no log on that side: it has never run, or never recorded a checkpoint there",
    ),
    (
        "ForeignParcel",
        "the documents belong to no window of the session",
    ),
    (
        "Fraction",
        "a number is not a 64-bit integer; couch_lines load --whole puts such members into an envelope",
    ),
    (
        "GenerationFull",
        "the parent has the greatest possible generation",
    ),
    ("GoalBelowStart", "the session's goal is below its start"),
    (
        "Hole",
        "a leaf of the source is missing in the target and was not refused",
    ),
    (
        "IsTarget",
        "the database has been a replication target, so it cannot be backed up or restored",
    ),
    (
        "LifeFull",
        "the database cannot be restored again, because its life number is at the limit",
    ),
    ("Memory", "an allocation failed"),
    ("NoBackup", "the database has no backup of that name"),
    (
        "NoDatabase",
        "no database has that name; create it with load",
    ),
    ("NoId", "the id must be a non-empty string"),
    ("NoRev", "a loaded document must have _rev or _revisions"),
    (
        "NoSuchDocument",
        "the database has no document with that id",
    ),
    (
        "NoSuchRevision",
        "the document has no such revision, or the revision is an ancestor whose content is unknown",
    ),
    ("NoSuchSession", "the target has no session with that id"),
    ("NoWorkers", "workers must be 1 to 64, unless alone is true"),
    ("NoneChosen", "doc_ids must have at least one id"),
    ("NotObject", "a document and a body must be JSON objects"),
    (
        "ReservedId",
        "an id must not begin with _, unless it is that of a design document",
    ),
    (
        "RevExists",
        "the revision that this edit makes exists already",
    ),
    (
        "RevMismatch",
        "_rev must equal the first revision of _revisions",
    ),
    ("SamePeer", "source and target are the same database"),
    (
        "SeqFull",
        "the update sequence of the database is at its limit",
    ),
    ("SessionExists", "the target has a session with that id"),
    (
        "SpecialMember",
        "members that begin with _ must be _id, _rev, _revisions or _deleted, and _deleted must be true or false",
    ),
    (
        "Stopped",
        "only part of a window was written: no memory, or no update sequence, was left",
    ),
    ("TooManyChosen", "doc_ids must have at most 1000 ids"),
    (
        "TooManyWorkers",
        "workers must be 1 to 64, unless alone is true",
    ),
    (
        "Uncovered",
        "a leaf of a window is missing in what was fetched",
    ),
    ("UuidTaken", "another database has that UUID"),
];

/// Returns the meaning of an error name. If the table does not have the name, returns the text `no line fails with this
/// name`.
pub(crate) fn sentence_of(name: &str) -> &'static str {
    for row in SENTENCES {
        if is_same_text(name, row.0) {
            return row.1;
        }
    }
    "no line fails with this name"
}
