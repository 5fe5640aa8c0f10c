//! Worked examples that wrap documents in envelopes, and unwrap documents from envelopes. Some of the examples wrap
//! only the beginning of a document, or unwrap only the beginning of an envelope.
use doc_envelope::Envelope;
use std::alloc::Global;
use std::process::Abort;

/// A call of one of the functions of `Envelope` that wrap or unwrap documents. The argument of the call is a document,
/// an envelope, or the beginning of one of them.
#[derive(Clone, Copy)]
enum Call {
    /// Wrap a document.
    Put,
    /// Unwrap an envelope.
    Take,
    /// Wrap the beginning of a document in the beginning of an envelope.
    BeginPut,
    /// Unwrap the beginning of an envelope.
    BeginTake,
}

/// A row of a test: a call, the call's input, and the expected output. The output is `None` if the call must return
/// `false`.
type Row = (Call, &'static str, Option<&'static str>);

/// Asserts for each row of a table that the row's call returns `true` and builds the row's expected output. If a row of
/// the test table has no expected output, the row's call must return `false`.
fn run(rt: &impl Abort, envelope: &mut Envelope, rows: &[Row]) {
    for (i, (call, text, wanted)) in rows.iter().enumerate() {
        let returned = match *call {
            Call::Put => envelope.put(text.as_bytes()),
            Call::Take => envelope.take(text.as_bytes()),
            Call::BeginPut => envelope.begin_put(text.as_bytes()),
            Call::BeginTake => envelope.begin_take(text.as_bytes()),
        };
        let is_wanted = match (returned, wanted) {
            (Ok(true), Some(made)) => envelope.text() == made.as_bytes(),
            (Ok(false), None) => true,
            _ => false,
        };
        assert!(rt; is_wanted, "row {i}");
    }
}

/// Documents whose last member is `_attachments`, as CouchDB prints them, and beginnings of such documents.
static WRAPPED: &[Row] = &[
    (
        Call::Put,
        r#"{"_id":"a","_rev":"2-b","x":"y","_revisions":{"start":2,"ids":["b","c"]},"_attachments":{"f":{"data":"QUJDREVGRw=="}}}"#,
        Some(
            r#"{"_id":"a","_rev":"2-b","_revisions":{"start":2,"ids":["b","c"]},"whole":"\"x\":\"y\",\"_attachments\":{\"f\":{\"data\":\"QUJDREVGRw==\"}}"}"#,
        ),
    ),
    (
        Call::BeginPut,
        r#"{"_id":"a","_rev":"2-b","x":"y","_revisions":{"start":2,"ids":["b","c"]},"_attachments":{"f":{"data":"QUJDREVGRw"#,
        Some(
            r#"{"_id":"a","_rev":"2-b","_revisions":{"start":2,"ids":["b","c"]},"whole":"\"x\":\"y\",\"_attachments\":{\"f\":{\"data\":\"QUJDREVGRw"#,
        ),
    ),
    // The beginning of a document has no `_revisions` here, but the rest of the document may have this member. The call
    // `begin_put` therefore returns `false`.
    (
        Call::BeginPut,
        r#"{"_id":"a","_rev":"2-b","_attachments":{"f":{"data":"QUJDREVGRw"#,
        None,
    ),
    // The documents' beginnings in the next three rows end, in this order, in a member other than `_attachments`,
    // outside of a string, and shortly after a quotation mark. For each of these rows, `begin_put` returns `false`.
    (
        Call::BeginPut,
        r#"{"_id":"a","_revisions":{"start":1,"ids":["b"]},"x":{"f":{"data":"QUJDREVGRw"#,
        None,
    ),
    (
        Call::BeginPut,
        r#"{"_id":"a","_revisions":{"start":1,"ids":["b"]},"_attachments":{"f":{"length":1234567890"#,
        None,
    ),
    (
        Call::BeginPut,
        r#"{"_id":"a","_revisions":{"start":1,"ids":["b"]},"_attachments":{"f":{"data":"QUJDREV"#,
        None,
    ),
];

#[test]
fn wraps_beginnings(rt: HostRuntime) {
    run(&rt, &mut Envelope::new(rt.alloc()), WRAPPED);
}

/// Envelopes and their beginnings.
static UNWRAPPED: &[Row] = &[
    (
        Call::Take,
        r#"{"_id":"a","_rev":"2-b","whole":"\"x\":\"y\",\"_attachments\":{\"f\":{\"data\":\"QUJDREVGRw==\"}}"}"#,
        Some(r#"{"_id":"a","_rev":"2-b","x":"y","_attachments":{"f":{"data":"QUJDREVGRw=="}}}"#),
    ),
    (
        Call::BeginTake,
        r#"{"_id":"a","_rev":"2-b","whole":"\"x\":\"y\",\"_attachments\":{\"f\":{\"data\":\"QUJDREVGRw"#,
        Some(r#"{"_id":"a","_rev":"2-b","x":"y","_attachments":{"f":{"data":"QUJDREVGRw"#),
    ),
    // The envelopes' beginnings in the next three rows end, in this order, outside of a wrapped string, in a member
    // other than `whole`, and shortly after an escape. For each of these rows, `begin_take` returns `false`.
    (
        Call::BeginTake,
        r#"{"_id":"a","_rev":"2-b","whole":"\"x\":1234567890"#,
        None,
    ),
    (
        Call::BeginTake,
        r#"{"_id":"a","_rev":"2-b","x":"QUJDREVGRw"#,
        None,
    ),
    (
        Call::BeginTake,
        r#"{"_id":"a","_rev":"2-b","whole":"\"x\":\"QUJDREV"#,
        None,
    ),
];

#[test]
fn unwraps_beginnings(rt: HostRuntime) {
    run(&rt, &mut Envelope::new(rt.alloc()), UNWRAPPED);
}
