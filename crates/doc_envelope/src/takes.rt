//! Unwraps the beginning of an envelope.
ghost use Rattle.std.specs.Prelude.{◌≡◌, ◌++◌, ◌∷◌, [], ◌<◌, ℕ, List, length, drop, true, IfOk, IfSome};
ghost use Rattle.doc_envelope.specs.Members.{Outside, first_length, members_in};
ghost use Rattle.doc_envelope.specs.Steps.{all_taken};
ghost use Rattle.doc_envelope.specs.Stored.{made_of};
ghost use Rattle.doc_envelope.specs.TakeFronts.{IsTakeStart, AppendsOpen, whole_before};

use crate::envelope::{Envelope, behind_brace};
use crate::members::split_member;
use crate::streaming::{ends_first, may_stream};
use std::alloc::AllocError;

impl Envelope {
    /// Unwraps the beginning of an envelope. Returns true only if `beginning` may be followed by a run: string bytes
    /// that are passed on without being stored. If the call returns true, each document whose envelope begins with
    /// `beginning` begins with the built text.
    pub fn begin_take(&mut self, beginning: &[u8]) -> Result<bool, AllocError>
        ensures { IfOk result (λ ok. ok ≡ true → IsTakeStart beginning.now (made_of self.new)) }
    {
        if !may_stream(beginning) {
            return Ok(false);
        }
        let Some(member) = self.begin_unfold(beginning)? else {
            return Ok(false);
        };
        let Some(string) = open_whole(member) else {
            return Ok(false);
        };
        if !may_stream(string) || !self.take_open(string)? {
            return Ok(false);
        }
        Ok(ends_first(self.text()) && may_stream(self.text()))
    }

    /// Copies each complete member from the beginning of an envelope. Returns the text of the last member, which is
    /// incomplete in the beginning of the envelope. Returns `None` if the envelope has a complete member `whole` whose
    /// value is not a string, or is a blank string.
    fn begin_unfold<'a>(&mut self, beginning: &'a [u8]) -> Result<Option<&'a [u8]>, AllocError>
        requires { 0 < length beginning.now }
        ensures { IfOk result (λ last. IfSome last (λ member. (t : List ℕ)
            → all_taken (123 ∷ []) (members_in Outside 0 [] (drop 1 (beginning.now ++ t)))
            ≡ all_taken (made_of self.new) (members_in Outside 0 [] (member.now ++ t)))) }
    {
        self.begin()?;
        let mut rest = behind_brace(beginning);
        while let Some((member, more)) = split_member(rest) {
            if !self.take_member(member)? {
                return Ok(None);
            }
            rest = more;
        }
        Ok(Some(rest))
    }

    /// Appends the content of the incomplete JSON string `string` to the built text. `string` is the first part of the
    /// value of the envelope's member `whole`. Returns `false` if `string` with a closing quotation mark is not a JSON
    /// string, or if this JSON string is empty or has only spaces.
    fn take_open(&mut self, string: &[u8]) -> Result<bool, AllocError>
        ensures { IfOk result (λ ok. ok ≡ true
            → AppendsOpen string.now (made_of self.old) (made_of self.new)) }
    {
        let mut closed = Vec::new(self.alloc);
        closed.extend_from_slice(string)?;
        closed.push(b'"')?;
        match self.take_held(closed.as_slice()) {
            Ok(taken) => Ok(taken),
            Err(refused) => Err(refused),
        }
    }
}

/// Returns the value of a member `whole`, if the value is a string and no white space precedes the value.
fn open_whole(member: &[u8]) -> Option<&[u8]>
    ensures { IfSome result (λ string. (member.now ≡ whole_before (drop 1 string.now))
        × (string.now ≡ 34 ∷ drop 1 string.now)) }
{
    if member.starts_with(b"\"whole\":\"") {
        Some(&member[8..])
    } else {
        None
    }
}
