//! The text that each output format writes around documents, ids and revisions.
ghost use Rattle.std.specs.Prelude.{◌≡◌};
ghost use Rattle.response_output.specs.Forms.{opening as opening_of, separator as separator_of, ends as ends_of, closing as closing_of, empty as empty_of, before_rev as before_rev_of, has_lists as has_lists_of};

/// The output format of a conversion of CouchDB's responses: `load` or `doc` lines of a script, or request bodies for
/// CouchDB.
#[derive(Clone, Copy, Debug, PartialEq, Eq)]
pub enum Form {
    /// `load` lines of a script, one for each document.
    Loads,
    /// The bodies of `_bulk_get` requests, each of which requests leaves.
    Asked,
    /// The bodies of `_revs_diff` requests, which ask a server for missing revisions.
    Diffs,
    /// `doc` lines of a script, one for each revision.
    Docs,
    /// The bodies of `_bulk_docs` requests, which store documents.
    Bodies,
}

/// Returns the text that opens a request body.
pub(crate) fn opening(form: Form) -> &'static [u8]
    ensures { result.now ≡ opening_of form }
{
    match form {
        Form::Loads | Form::Docs => b"",
        Form::Asked => b"{\"docs\":[",
        Form::Diffs => b"{",
        Form::Bodies => b"{\"new_edits\":false,\"docs\":[",
    }
}

/// Returns the text between two items of a request body.
pub(crate) fn separator(form: Form) -> &'static [u8]
    ensures { result.now ≡ separator_of form }
{
    match form {
        Form::Loads | Form::Docs => b"",
        Form::Asked | Form::Bodies => b",",
        Form::Diffs => b"],",
    }
}

/// Returns the text at the end of each item in the output format `form`.
pub(crate) fn ends(form: Form) -> &'static [u8]
    ensures { result.now ≡ ends_of form }
{
    match form {
        Form::Loads | Form::Docs => b"}\n",
        Form::Asked => b"}",
        Form::Diffs | Form::Bodies => b"",
    }
}

/// Returns the text that closes a request body.
pub(crate) fn closing(form: Form) -> &'static [u8]
    ensures { result.now ≡ closing_of form }
{
    match form {
        Form::Loads | Form::Docs => b"",
        Form::Asked | Form::Diffs | Form::Bodies => b"]}\n",
    }
}

/// Returns the request body that is written if the input has no item.
pub(crate) fn empty(form: Form) -> &'static [u8]
    ensures { result.now ≡ empty_of form }
{
    match form {
        Form::Asked => b"{\"docs\":[]}\n",
        Form::Diffs => b"{}\n",
        Form::Loads | Form::Docs | Form::Bodies => b"",
    }
}

/// Returns the text between a document id and its revision.
pub(crate) fn before_rev(form: Form) -> &'static [u8]
    ensures { result.now ≡ before_rev_of form }
{
    match form {
        Form::Diffs => b":[",
        _ => b",\"rev\":",
    }
}

/// Whether the output format writes the revisions of a document as one list.
pub(crate) fn has_lists(form: Form) -> bool
    ensures { result ≡ has_lists_of form }
{
    matches!(form, Form::Diffs)
}
