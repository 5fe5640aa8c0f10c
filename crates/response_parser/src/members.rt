//! Reads the names of JSON members, and the bytes around the names.
ghost use Rattle.std.specs.Prelude.{◌≡◌, OnOk};
ghost use Rattle.response_parser.specs.Stored.{state_of};
ghost use Rattle.response_parser.specs.State.{added};
ghost use Rattle.response_parser.specs.Names.{is_known, is_plain, is_id, is_inner};
ghost use Rattle.response_parser.specs.Objects.{key_begun, at_member, at_next_member, after_member, name_in, named, plain_begun, in_key, in_key_escape, value_place, value_begun, begun_as, is_ahead, at_colon, at_list, moved_between};
ghost use Rattle.response_parser.specs.Values.{at_ahead, begun_in};

use crate::place::{Name, Place, Refusal, RevPlace};
use crate::reading::Reading;
use crate::spelling::{is_space, name_of};
use crate::wanted::wants_leaves;
use std::alloc::AllocError;

impl Reading {
    /// Appends a byte to the current name or value.
    #[inline(always)]
    pub(crate) fn add(&mut self, byte: u8) -> Result<(), AllocError>
        ensures { OnOk result (state_of self.new ≡ added byte (state_of self.old)) }
    {
        self.text.push(byte)?;
        Ok(())
    }

    /// Reads a byte that is not in a member's name or in a value.
    pub(crate) fn between(&mut self, byte: u8)
        ensures { state_of self.new ≡ moved_between self.old.place (state_of self.old) byte }
    {
        match self.place {
            Place::Item => self.at_item(byte),
            Place::NextItem => self.at_next_item(byte),
            Place::AfterItem => self.after_item(byte),
            Place::AfterMember => self.after_member(byte),
            Place::Colon(name) => self.at_colon(name, byte),
            Place::List => self.at_list(byte),
            _ => {}
        }
    }

    /// Starts a member's name at its opening quotation mark.
    fn begin_key(&mut self, first: bool) -> Result<(), AllocError>
        ensures { OnOk result (state_of self.new ≡ key_begun first (state_of self.old)) }
    {
        self.text.clear();
        self.text.push(b'"')?;
        self.place = Place::Key;
        self.first = first;
        Ok(())
    }

    /// Reads a byte after the opening brace of a JSON object.
    pub(crate) fn at_member(&mut self, byte: u8) -> Result<(), AllocError>
        ensures { OnOk result (state_of self.new ≡ at_member (state_of self.old) byte) }
    {
        if is_space(byte) {
            return Ok(());
        }
        match byte {
            b'"' => return self.begin_key(true),
            b'}' => self.close_empty(),
            _ => self.refuse(Refusal::NotJson),
        }
        Ok(())
    }

    /// Reads a byte after a comma between two members of an object.
    pub(crate) fn at_next_member(&mut self, byte: u8) -> Result<(), AllocError>
        ensures { OnOk result (state_of self.new ≡ at_next_member (state_of self.old) byte) }
    {
        if is_space(byte) {
            return Ok(());
        }
        if byte == b'"' {
            return self.begin_key(false);
        }
        self.refuse(Refusal::NotJson);
        Ok(())
    }

    /// Reads a byte after a member whose value is a list or an object.
    fn after_member(&mut self, byte: u8)
        ensures { state_of self.new ≡ after_member (state_of self.old) byte }
    {
        if is_space(byte) {
            return;
        }
        match byte {
            b',' => self.stand_at(Place::NextMember),
            b'}' => self.close_object(),
            _ => self.refuse(Refusal::NotJson),
        }
    }

    /// Reads a byte of a member's name.
    pub(crate) fn in_key(&mut self, byte: u8) -> Result<(), AllocError>
        ensures { OnOk result (state_of self.new ≡ in_key (state_of self.old) byte) }
    {
        self.add(byte)?;
        match byte {
            b'"' => self.end_key(),
            b'\\' => {
                self.stand_at(Place::KeyEscape);
                Ok(())
            }
            _ => Ok(()),
        }
    }

    /// Reads a byte after a backslash in a member's name.
    pub(crate) fn in_key_escape(&mut self, byte: u8) -> Result<(), AllocError>
        ensures { OnOk result (state_of self.new ≡ in_key_escape (state_of self.old) byte) }
    {
        self.add(byte)?;
        self.stand_at(Place::Key);
        Ok(())
    }

    /// Ends a name at its closing quotation mark.
    fn end_key(&mut self) -> Result<(), AllocError>
        ensures { OnOk result (state_of self.new ≡ named (state_of self.old)) }
    {
        if !self.is_json()? {
            self.refuse(Refusal::NotJson);
            return Ok(());
        }
        let name = self.name();
        if is_plain(name) {
            return self.begin_plain(name);
        }
        self.stand_at(Place::Colon(name));
        Ok(())
    }

    /// Returns the kind of the current member, which determines how the parser reads the member's value.
    fn name(&self) -> Name
        ensures { result ≡ name_in (state_of self.now) }
    {
        name_of(
            self.wanted,
            self.first,
            self.inner,
            self.diff,
            self.depth,
            self.text.as_slice(),
        )
    }

    /// Begins to read an object as one value, after the name of the object's first member. Inserts the object's opening
    /// brace before the first name in the stored text.
    fn begin_plain(&mut self, name: Name) -> Result<(), AllocError>
        ensures { OnOk result (state_of self.new ≡ plain_begun name (state_of self.old)) }
    {
        self.text.insert(0, b'{')?;
        self.place = Place::Value(name);
        self.nesting = 1;
        Ok(())
    }

    /// Reads a byte after a member's name.
    fn at_colon(&mut self, name: Name, byte: u8)
        ensures { state_of self.new ≡ at_colon name (state_of self.old) byte }
    {
        if is_space(byte) {
            return;
        }
        if byte != b':' {
            self.refuse(Refusal::NotJson);
        } else if self.is_ahead() {
            self.stand_at(Place::Ahead(name));
        } else {
            self.begin_as(name);
        }
    }

    /// Whether the current member may be a document's entry in a `_revs_diff` response. The name of an entry is the
    /// document's id.
    fn is_ahead(&self) -> bool
        ensures { result ≡ is_ahead (state_of self.now) }
    {
        wants_leaves(self.wanted) && self.depth == 1 && (self.first || self.diff)
    }

    /// Reads a byte before the value of a member that may be a document's entry in a `_revs_diff` response. If the
    /// member's value is an object, the member is an entry, and its name is the document's id.
    pub(crate) fn at_ahead(&mut self, name: Name, byte: u8) -> Result<(), AllocError>
        ensures { OnOk result (state_of self.new ≡ at_ahead name (state_of self.old) byte) }
    {
        if is_space(byte) {
            return Ok(());
        }
        if byte == b'{' {
            self.open_entry();
            return Ok(());
        }
        if self.diff {
            self.refuse(Refusal::NoAnswer);
            return Ok(());
        }
        self.begin_as(name);
        self.in_begun(byte)
    }

    /// Reads the first byte of a member's value, after `begin_as` has set the parser's place according to the member's
    /// kind.
    fn in_begun(&mut self, byte: u8) -> Result<(), AllocError>
        ensures { OnOk result (state_of self.new ≡ begun_in (state_of self.old) byte) }
    {
        match self.place {
            Place::Value(name) => self.in_value(name, byte),
            _ => {
                self.between(byte);
                Ok(())
            }
        }
    }

    /// Sets the parser's place before a member's value, according to the member's kind. Rejects a member of the kind
    /// `Foreign`, and a member `changes` without an `id` before it.
    fn begin_as(&mut self, name: Name)
        ensures { state_of self.new ≡ begun_as name (state_of self.old) }
    {
        match name {
            Name::Foreign => self.refuse(Refusal::NoDocument),
            Name::Changes if !self.named => self.refuse(Refusal::NoAnswer),
            _ => self.begin_value(name),
        }
    }

    /// Sets the parser's place before a member's value, and updates the flags that depend on the member's kind.
    fn begin_value(&mut self, name: Name)
        ensures { state_of self.new ≡ value_begun name (state_of self.old) }
    {
        self.place = value_place(name);
        self.known = self.known || is_known(name);
        self.named = self.named || is_id(name);
        self.inner = self.inner || is_inner(name);
        self.text.clear();
        self.nesting = 0;
    }

    /// Reads a byte before the opening bracket of a list.
    fn at_list(&mut self, byte: u8)
        ensures { state_of self.new ≡ at_list (state_of self.old) byte }
    {
        if is_space(byte) {
            return;
        }
        if byte == b'[' {
            self.open(Place::Item);
        } else {
            self.refuse(Refusal::NoAnswer);
        }
    }
}

/// Returns the parser's place before the first byte of a member's value, given the member's kind.
fn value_place(name: Name) -> Place
    ensures { result ≡ value_place name }
{
    match name {
        Name::List | Name::Docs | Name::Changes => Place::List,
        Name::Missing => Place::Revs(RevPlace::List),
        _ => Place::Value(name),
    }
}

/// Whether a member of the given kind makes the parser accept an object, instead of skipping or rejecting the object.
fn is_known(name: Name) -> bool
    ensures { result ≡ is_known name }
{
    !matches!(name, Name::Other | Name::Id | Name::Reason)
}

/// Whether the parser reads an object as one value if the object's first member has the given kind.
pub(crate) fn is_plain(name: Name) -> bool
    ensures { result ≡ is_plain name }
{
    matches!(name, Name::Plain | Name::Item)
}

/// Whether a member's value is a document id, given the member's kind.
fn is_id(name: Name) -> bool
    ensures { result ≡ is_id name }
{
    matches!(name, Name::Id)
}

/// Whether a member of the given kind is a list of a document's revisions, or the outermost object's list `docs`.
fn is_inner(name: Name) -> bool
    ensures { result ≡ is_inner name }
{
    matches!(name, Name::Changes | Name::Docs)
}
