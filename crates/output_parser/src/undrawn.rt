//! Recognizes the lines of a script's output that are not drawn, by their first words.
ghost use Rattle.std.specs.Prelude.{◌≡◌};
ghost use Rattle.output_parser.specs.Undrawn.{is_document, is_of_changes, is_of_sessions, is_undrawn};

/// Whether a line begins as an output line that is not drawn (docs/PROFILE.md, "Pictures").
pub fn is_undrawn(line: &[u8]) -> bool
    ensures { result ≡ is_undrawn line.now }
{
    is_of_changes(line) || is_of_sessions(line) || is_document(line)
}

/// Whether a line begins with the first word of an output line about a database, such as `made`, `edited` or
/// `conflicts`.
fn is_of_changes(line: &[u8]) -> bool
    ensures { result ≡ is_of_changes line.now }
{
    line.starts_with(b"made ")
        || line.starts_with(b"there ")
        || line.starts_with(b"loaded ")
        || line.starts_with(b"same ")
        || line.starts_with(b"edited ")
        || line.starts_with(b"change ")
        || line.starts_with(b"last ")
        || line.starts_with(b"backed ")
        || line.starts_with(b"restored ")
        || line.starts_with(b"conflicts ")
}

/// Whether a line begins like a line about a session or an audit, or like an error line.
fn is_of_sessions(line: &[u8]) -> bool
    ensures { result ≡ is_of_sessions line.now }
{
    line == b"clean".as_slice()
        || line.starts_with(b"progress ")
        || line.starts_with(b"stopped ")
        || line.starts_with(b"hole ")
        || line.starts_with(b"denied ")
        || line.starts_with(b"contradicted ")
        || line.starts_with(b"ledger ")
        || line.starts_with(b"refused ")
}

/// Whether a line begins like a document, and not like a log. The text of a log begins with `{"_id":"_local/`.
fn is_document(line: &[u8]) -> bool
    ensures { result ≡ is_document line.now }
{
    line.starts_with(b"{\"_id\":\"") && !line.starts_with(b"{\"_id\":\"_local/")
}
