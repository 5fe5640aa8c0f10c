//! Wraps documents in envelopes, and unwraps them. An envelope stores most members of a document in one string.
ghost use Rattle.std.specs.Prelude.{◌≡◌, ◌++◌, ◌∷◌, [], ◌<◌, ◌≤◌, ℕ, List, length, drop, cond, Some, None, option_map, option_and_then, true, IfOk, OnOk};
ghost use Rattle.std.specs.Str.{is_utf8};
ghost use Rattle.doc_envelope.specs.Texts.{is_json};
ghost use Rattle.doc_envelope.specs.Members.{Outside, is_blank, members_in};
ghost use Rattle.doc_envelope.specs.Names.{has_id};
ghost use Rattle.doc_envelope.specs.Envelopes.{stays, enveloped, unfolded, if_any, string_of};
ghost use Rattle.doc_envelope.specs.Carried.{HasMembers, Envelops, AreOthers, Carries, AreMembers};
ghost use Rattle.doc_envelope.specs.Steps.{added, held_with, text_with, held_by, taken_with, behind_comma, with_held, texts_with, helds_by, all_taken};
ghost use Rattle.doc_envelope.specs.Stored.{made_of, held_of, printed_of, HasPrintedFront};
ghost use Rattle.doc_envelope.specs.PutFronts.{before_last};

use crate::json_scratch::JsonScratch;
use crate::members::first_length;
use crate::names::{has_name, value_of};
use crate::printing::still_printed;
use crate::values::{is_envelope, quote, string_of};
use std::alloc::{AllocError, Global};

/// The name of the member `whole`, with its quotation marks. The string of an envelope's member `whole` contains all
/// wrapped members.
const WHOLE: &[u8] = b"\"whole\"";

/// Wraps and unwraps documents, and reuses its buffers.
#[derive(Drop)]
pub struct Envelope {
    pub(crate) alloc: Global,
    /// The text that `put`, `take`, `begin_put` or `begin_take` built last.
    text: Vec<u8>,
    /// The text of the members that go into the string of the envelope's member `whole`.
    held: Vec<u8>,
    /// If `printed` is true, each member of the envelope other than `whole` is exactly as the crate `json` would print
    /// it.
    printed: bool,
    scratch: JsonScratch,
}

impl Envelope {
    /// Creates an `Envelope` with an empty text.
    pub fn new(alloc: Global) -> Envelope
        ensures { made_of result ≡ [] }
    {
        Envelope {
            alloc,
            text: Vec::new(alloc),
            held: Vec::new(alloc),
            printed: false,
            scratch: JsonScratch::new(),
        }
    }

    /// Returns the text that `put`, `take`, `begin_put` or `begin_take` built last.
    pub fn text(&self) -> &[u8]
        ensures { result.now ≡ made_of self.now }
    {
        self.text.as_slice()
    }

    /// Wraps a document. Returns `false` if the text is not an object, or if its member `_deleted` is not a Boolean.
    pub fn put(&mut self, document: &[u8]) -> Result<bool, AllocError>
        ensures text { IfOk result (λ ok. enveloped document.now ≡ cond ok (Some (made_of self.new)) None) }
        ensures envelops { (ms : List (List ℕ)) → HasMembers document.now ms
            → IfOk result (λ ok. ok ≡ true → Envelops ms (made_of self.new)) }
    {
        match self.envelop(document) {
            Ok(made) => Ok(made),
            Err(refused) => Err(refused),
        }
    }

    /// Wraps a document.
    fn envelop(&mut self, document: &[u8]) -> Result<bool, AllocError>
        ensures { IfOk result (λ ok. enveloped document.now ≡ cond ok (Some (made_of self.new)) None) }
    {
        self.fold(document)?;
        let printed = self.printed;
        if !self.end_fold()? {
            return Ok(false);
        }
        if printed {
            return Ok(true);
        }
        let scratch = self.scratch.get(self.alloc)?;
        is_envelope(self.alloc, self.text.as_slice(), scratch)
    }

    /// Unwraps a document. Returns `false` if the text is not a JSON object, or if the object's member `whole` is not a
    /// string of JSON members.
    pub fn take(&mut self, document: &[u8]) -> Result<bool, AllocError>
        ensures text { IfOk result (λ ok. unfolded document.now ≡ cond ok (Some (made_of self.new)) None) }
        ensures gives_back { (fs ws os : List (List ℕ)) → HasMembers document.now (fs ++ ws) → AreOthers fs
            → Carries ws os → AreMembers os
            → IfOk result (λ ok. ok ≡ true → HasMembers (made_of self.new) (fs ++ os)) }
    {
        match self.release(document) {
            Ok(made) => Ok(made),
            Err(refused) => Err(refused),
        }
    }

    /// Unwraps a document.
    fn release(&mut self, document: &[u8]) -> Result<bool, AllocError>
        ensures { IfOk result (λ ok. unfolded document.now ≡ cond ok (Some (made_of self.new)) None) }
    {
        if !self.unfold(document)? {
            return Ok(false);
        }
        self.text.push(b'}')?;
        self.is_json()
    }

    /// Whether the text that was built last is JSON.
    fn is_json(&mut self) -> Result<bool, AllocError>
        ensures value { IfOk result (λ json. json ≡ is_json (made_of self.old)) }
        ensures same { made_of self.new ≡ made_of self.old }
    {
        self.scratch.is_json(self.alloc, self.text.as_slice())
    }

    /// Whether a text is JSON in UTF-8. The call does not change the text that was built last. The call parses with the
    /// `JsonScratch` that `put` and `take` also use.
    pub fn is_json_text(&mut self, text: &[u8]) -> Result<bool, AllocError>
        ensures value { IfOk result (λ json. json ≡ is_json text.now) }
        ensures same { made_of self.new ≡ made_of self.old }
    {
        self.scratch.is_json(self.alloc, text)
    }

    /// Starts a new text with an opening brace.
    pub(crate) fn begin(&mut self) -> Result<(), AllocError>
        ensures made { OnOk result (made_of self.new ≡ 123 ∷ []) }
        ensures held { OnOk result (held_of self.new ≡ []) }
    {
        self.text.clear();
        self.held.clear();
        self.printed = true;
        self.text.push(b'{')?;
        Ok(())
    }

    /// Copies each member of a document, either to the envelope itself or to the envelope's string.
    pub(crate) fn fold(&mut self, document: &[u8]) -> Result<(), AllocError>
        ensures made { OnOk result
            (made_of self.new ≡ texts_with (123 ∷ []) (members_in Outside 0 [] (drop 1 document.now))) }
        ensures held { OnOk result
            (held_of self.new ≡ helds_by [] (members_in Outside 0 [] (drop 1 document.now))) }
        ensures printed { OnOk result (HasPrintedFront self.new) }
    {
        self.begin()?;
        let mut rest = behind_brace(document);
        while !rest.is_empty() {
            let length = first_length(rest);
            self.put_member(&rest[..length])?;
            rest = behind_comma(rest, length);
        }
        Ok(())
    }

    /// Ends the text of an envelope with the member `whole`. Returns `false` if the collected text for the member
    /// `whole` is not UTF-8.
    fn end_fold(&mut self) -> Result<bool, AllocError>
        ensures is { IfOk result (λ ok. ok ≡ is_utf8 (held_of self.old)) }
        ensures made { IfOk result (λ ok. ok ≡ true
            → made_of self.new ≡ with_held (made_of self.old) (held_of self.old) ++ 125 ∷ []) }
    {
        if !self.end_held()? {
            return Ok(false);
        }
        self.text.push(b'}')?;
        Ok(true)
    }

    /// Copies each member of an envelope. Instead of the member `whole`, `unfold` copies the members that the string of
    /// `whole` contains. Returns `false` if the value of a member `whole` is not a string, or is a blank string.
    fn unfold(&mut self, document: &[u8]) -> Result<bool, AllocError>
        ensures { IfOk result (λ ok. all_taken (123 ∷ []) (members_in Outside 0 [] (drop 1 document.now))
            ≡ cond ok (Some (made_of self.new)) None) }
    {
        self.begin()?;
        let mut rest = behind_brace(document);
        while !rest.is_empty() {
            let length = first_length(rest);
            if !self.take_member(&rest[..length])? {
                return Ok(false);
            }
            rest = behind_comma(rest, length);
        }
        Ok(true)
    }

    /// Copies a member, either to the envelope itself or to the envelope's string.
    fn put_member(&mut self, member: &[u8]) -> Result<(), AllocError>
        ensures made { OnOk result (made_of self.new ≡ text_with (made_of self.old) member.now) }
        ensures held { OnOk result (held_of self.new ≡ held_by (held_of self.old) member.now) }
        ensures printed { HasPrintedFront self.old → OnOk result (HasPrintedFront self.new) }
    {
        if is_blank(member) {
            return Ok(());
        }
        if stays(member) {
            return self.put_front(member);
        }
        self.hold(member)
    }

    /// Appends a member to the envelope. The field `printed` stays true only if the crate `json` would print the member
    /// unchanged.
    fn put_front(&mut self, member: &[u8]) -> Result<(), AllocError>
        ensures made { OnOk result (made_of self.new ≡ added (made_of self.old) member.now) }
        ensures held { held_of self.new ≡ held_of self.old }
        ensures printed { HasPrintedFront self.old → OnOk result (HasPrintedFront self.new) }
    {
        self.printed = still_printed(self.printed, member);
        self.add(member)
    }

    /// Appends a member, after a comma if the text already has a member.
    fn add(&mut self, member: &[u8]) -> Result<(), AllocError>
        ensures made { OnOk result (made_of self.new ≡ added (made_of self.old) member.now) }
        ensures held { held_of self.new ≡ held_of self.old }
        ensures printed { printed_of self.new ≡ printed_of self.old }
    {
        if self.text.len() > 1 {
            self.text.push(b',')?;
        }
        self.text.extend_from_slice(member)
    }

    /// Appends a member of the document to the text for the envelope's string `whole`.
    fn hold(&mut self, member: &[u8]) -> Result<(), AllocError>
        ensures held { OnOk result (held_of self.new ≡ held_with (held_of self.old) member.now) }
        ensures made { made_of self.new ≡ made_of self.old }
        ensures printed { printed_of self.new ≡ printed_of self.old }
    {
        if !self.held.is_empty() {
            self.held.push(b',')?;
        }
        self.held.extend_from_slice(member)
    }

    /// Appends the member `whole` to the envelope, unless the string of `whole` would be empty. Returns `false` if the
    /// collected text for the member `whole` is not UTF-8.
    fn end_held(&mut self) -> Result<bool, AllocError>
        ensures is { IfOk result (λ ok. ok ≡ is_utf8 (held_of self.old)) }
        ensures made { IfOk result (λ ok. ok ≡ true
            → made_of self.new ≡ with_held (made_of self.old) (held_of self.old)) }
    {
        if self.held.as_slice().is_empty() {
            return Ok(true);
        }
        self.add(b"\"whole\":")?;
        quote(self.alloc, self.held.as_slice(), &mut self.text)
    }

    /// Appends the member `whole` to the envelope, without the closing quotation mark of its string. If the string of
    /// `whole` would be empty, the call instead removes the last byte of the envelope's text. Returns `false` if the
    /// collected text for the member `whole` is not UTF-8.
    pub(crate) fn begin_held(&mut self) -> Result<bool, AllocError>
        ensures is { IfOk result (λ ok. ok ≡ is_utf8 (held_of self.old)) }
        ensures made { IfOk result (λ ok. ok ≡ true
            → made_of self.new ≡ before_last (with_held (made_of self.old) (held_of self.old))) }
    {
        if !self.end_held()? {
            return Ok(false);
        }
        self.text.pop();
        Ok(true)
    }

    /// Appends a member of an envelope to the document's text. For the member `whole`, the call instead appends the
    /// members in the string of `whole`. Returns `false` if the value of a member `whole` is not a string, or is a
    /// blank string.
    pub(crate) fn take_member(&mut self, member: &[u8]) -> Result<bool, AllocError>
        ensures { IfOk result (λ ok. taken_with (made_of self.old) member.now
            ≡ cond ok (Some (made_of self.new)) None) }
    {
        if is_blank(member) {
            return Ok(true);
        }
        if has_name(member, WHOLE) {
            return self.take_held(value_of(member, WHOLE));
        }
        self.add(member)?;
        Ok(true)
    }

    /// Appends the members that the JSON string `value` contains. `value` is the value of an envelope's member `whole`.
    pub(crate) fn take_held(&mut self, value: &[u8]) -> Result<bool, AllocError>
        ensures { IfOk result (λ ok. option_map (added (made_of self.old))
            (option_and_then if_any (string_of value.now)) ≡ cond ok (Some (made_of self.new)) None) }
    {
        let scratch = self.scratch.get(self.alloc)?;
        let members = match string_of(self.alloc, value, scratch) {
            Ok(Some(members)) => members,
            Ok(None) => return Ok(false),
            Err(refused) => return Err(refused),
        };
        if is_blank(members.as_bytes()) {
            return Ok(false);
        }
        if self.text.len() > 1 {
            self.text.push(b',')?;
        }
        self.text.extend_from_slice(members.as_bytes())?;
        Ok(true)
    }
}

/// Whether an object has a member `_id`.
pub fn has_id(document: &[u8]) -> bool
    ensures { result ≡ has_id document.now }
{
    let mut rest = behind_brace(document);
    while !rest.is_empty() {
        let length = first_length(rest);
        if has_name(&rest[..length], b"\"_id\"") {
            return true;
        }
        rest = behind_comma(rest, length);
    }
    false
}

/// Returns the text after an object's opening brace.
pub(crate) fn behind_brace(document: &[u8]) -> &[u8]
    ensures { result.now ≡ drop 1 document.now }
{
    if document.is_empty() {
        document
    } else {
        &document[1..]
    }
}

/// Skips a member of `count` bytes and the comma after the member, and returns the rest of the text. Returns an empty
/// text if no comma follows the member.
fn behind_comma(text: &[u8], count: usize) -> &[u8]
    requires { count ≤ length text.now }
    ensures value { result.now ≡ behind_comma text.now count }
    ensures shorter { 0 < length text.now → length result.now < length text.now }
{
    if count < text.len() && text[count] == b',' {
        &text[count + 1..]
    } else {
        &text[..0]
    }
}

/// Whether each byte of a text is white space.
fn is_blank(text: &[u8]) -> bool
    ensures { result ≡ is_blank text.now }
{
    text.iter().all(|b| *b == b' ')
}

/// Whether a document's member becomes a member of the envelope, instead of going into the string of `whole`.
fn stays(member: &[u8]) -> bool
    ensures { result ≡ stays member.now }
{
    has_name(member, b"\"_id\"")
        || has_name(member, b"\"_rev\"")
        || has_name(member, b"\"_revisions\"")
        || has_name(member, b"\"_deleted\"")
}
