//! Write filters, which decide which documents a peer refuses.
ghost use Rattle.std.specs.Prelude.{◌≡◌, Bool, if◌then◌else◌};
ghost use Rattle.doc_json.specs.Document.{Document};

use doc_json::Doc;

/// The verdict of a write filter on a document.
#[derive(Clone, Copy, Debug, PartialEq, Eq)]
pub enum Verdict {
    Accept,
    Refuse,
}

/// A rule that decides which replicated documents a peer refuses.
///
/// The verdict depends only on the filter's value and the document.
pub trait WriteFilter {
    ghost refuses: { Self → Document → Bool };

    /// Returns whether the filter accepts the document.
    fn verdict(&self, doc: &Doc) -> Verdict
        ensures { result ≡ (if refuses self.now doc.now then Verdict.Refuse else Verdict.Accept) };
}

/// Refuses documents whose ids begin with the prefix `deny`. An empty prefix refuses every document, and no prefix
/// (`None`) refuses none.
#[derive(Drop)]
pub struct Rules {
    pub deny: Option<String>,
}

impl WriteFilter for Rules {
    ghost use Rattle.repl_peer.specs.peer.Rules.{rules_refuse};

    ghost refuses = { rules_refuse };

    fn verdict(&self, doc: &Doc) -> Verdict {
        let Some(prefix) = &self.deny else {
            return Verdict::Accept;
        };
        if doc.id().text().starts_with(prefix.as_str()) {
            Verdict::Refuse
        } else {
            Verdict::Accept
        }
    }
}
