//! Converts the beginning of a document to the beginning of the document's envelope.
ghost use Rattle.std.specs.Prelude.{◌≡◌, drop, true, IfOk, IfSome};
ghost use Rattle.doc_envelope.specs.Streams.{Opens};
ghost use Rattle.doc_envelope.specs.Stored.{made_of};
ghost use Rattle.doc_envelope.specs.PutFronts.{InAttachments, IsPutStart};

use crate::envelope::{Envelope, behind_brace};
use crate::members::{first_length, split_member};
use crate::names::has_name;
use crate::streaming::{ends_first, may_stream};
use std::alloc::AllocError;

impl Envelope {
    /// Converts the beginning of a document to the beginning of the document's envelope. Returns true only if
    /// `beginning` ends inside a string whose further bytes may be passed on without being stored. If the call returns
    /// true, the document's envelope begins with the built text (`Envelope::text`), provided that all later members go
    /// into the string of `whole`.
    pub fn begin_put(&mut self, beginning: &[u8]) -> Result<bool, AllocError>
        ensures { IfOk result (λ ok. ok ≡ true → IsPutStart beginning.now (made_of self.new)) }
    {
        if !may_stream(beginning) || !in_attachments(beginning) {
            return Ok(false);
        }
        self.fold(beginning)?;
        if !ends_first(self.text()) {
            return Ok(false);
        }
        self.begin_held()
    }
}

/// Returns true only if `beginning` ends inside a string of the member `_attachments`, and the member `_revisions`
/// comes before `_attachments`.
fn in_attachments(beginning: &[u8]) -> bool
    ensures { result ≡ true → InAttachments beginning.now }
{
    match open_member(beginning) {
        Some(member) => has_name(member, b"\"_attachments\"") && may_stream(member),
        None => false,
    }
}

/// Returns the last member in `beginning` (the first bytes of a document), if the member is incomplete. Returns `None`
/// if the last member is complete, or if no member before the last member is `_revisions`.
fn open_member(beginning: &[u8]) -> Option<&[u8]>
    ensures { IfSome result (λ member. Opens (drop 1 beginning.now) member.now) }
{
    let mut rest = behind_brace(beginning);
    let mut revisions = false;
    while let Some((member, more)) = split_member(rest) {
        revisions = revisions || has_name(member, b"\"_revisions\"");
        rest = more;
    }
    if revisions && first_length(rest) == rest.len() {
        Some(rest)
    } else {
        None
    }
}
