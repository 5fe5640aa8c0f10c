//! Reads the brackets and commas of a response that are not part of a copied value.
ghost use Rattle.std.specs.Prelude.{◌≡◌};
ghost use Rattle.response_parser.specs.Stored.{state_of};
ghost use Rattle.response_parser.specs.State.{at, refused};
ghost use Rattle.response_parser.specs.Objects.{opened, closed, list_closed, behind_object, object_closed, empty_closed, entry_opened, list_opened, at_item, at_next_item, after_item};

use crate::place::{Found, Place, Refusal};
use crate::reading::Reading;
use crate::spelling::{is_space, more};
use crate::wanted::{is_strict, wants_changes, wants_leaves};

/// The maximum number of lists and objects of a response that are open at the same time.
const MAX_DEPTH: u8 = 8;

impl Reading {
    /// Continues at a place.
    #[inline(always)]
    pub(crate) fn stand_at(&mut self, place: Place)
        ensures { state_of self.new ≡ at place (state_of self.old) }
    {
        self.place = place;
    }

    /// Rejects a byte.
    #[inline(always)]
    pub(crate) fn refuse(&mut self, why: Refusal)
        ensures { state_of self.new ≡ refused why (state_of self.old) }
    {
        self.place = Place::Refused(why);
    }

    /// Opens a list or an object, and sets the parser's place to `place`, which is inside the list or object.
    pub(crate) fn open(&mut self, place: Place)
        ensures { state_of self.new ≡ opened place (state_of self.old) }
    {
        if self.depth < MAX_DEPTH {
            self.place = place;
            self.diff = self.diff && self.depth > 0;
            self.depth += 1;
            self.known = false;
            self.named = false;
            self.failed = false;
        } else {
            self.refuse(Refusal::NoAnswer);
        }
    }

    /// Closes a list or an object. The parser continues at `place`, or at `Between` if the bracket ends the response.
    pub(crate) fn close(&mut self, place: Place)
        ensures { state_of self.new ≡ closed place (state_of self.old) }
    {
        self.place = if self.depth > 1 {
            place
        } else {
            Place::Between
        };
        self.some = true;
        self.depth = if self.depth > 0 { self.depth - 1 } else { 0 };
        self.known = true;
        self.named = false;
        self.failed = false;
    }

    /// Closes a list.
    fn close_list(&mut self)
        ensures { state_of self.new ≡ list_closed (state_of self.old) }
    {
        self.inner = false;
        self.close(Place::AfterMember);
    }

    /// Closes an object. The parser skips or rejects an object that has no member with a known name.
    pub(crate) fn close_object(&mut self)
        ensures { state_of self.new ≡ object_closed (state_of self.old) }
    {
        let behind = self.behind_object();
        if self.known {
            self.close(behind);
        } else if is_strict(self.wanted) {
            self.refuse(Refusal::NoDocument);
        } else {
            self.passed = more(self.passed);
            self.close(behind);
        }
    }

    /// Returns the parser's place after an object. The place is `AfterMember` if the object is a document's entry in a
    /// `_revs_diff` response, and otherwise `AfterItem`.
    fn behind_object(&self) -> Place
        ensures { result ≡ behind_object (state_of self.now) }
    {
        if self.diff && self.depth == 2 {
            Place::AfterMember
        } else {
            Place::AfterItem
        }
    }

    /// Reads the closing bracket of an object without members. If a `_revs_diff` response is an empty object, no
    /// revision is missing.
    pub(crate) fn close_empty(&mut self)
        ensures { state_of self.new ≡ empty_closed (state_of self.old) }
    {
        self.known = wants_leaves(self.wanted) && self.depth == 1;
        self.close_object();
    }

    /// Reads the opening bracket of a document's entry in a `_revs_diff` response. The entry is the value of a member
    /// whose name is the document's id.
    pub(crate) fn open_entry(&mut self)
        ensures { state_of self.new ≡ entry_opened (state_of self.old) }
    {
        self.diff = true;
        self.found = Found::Id;
        self.open(Place::Member);
    }

    /// Reads a byte after the opening bracket of a list.
    pub(crate) fn at_item(&mut self, byte: u8)
        ensures { state_of self.new ≡ at_item (state_of self.old) byte }
    {
        if is_space(byte) {
            return;
        }
        match byte {
            b'{' => self.open(Place::Member),
            b']' => self.close_list(),
            _ => self.refuse(Refusal::NoAnswer),
        }
    }

    /// Reads a byte after a comma of a list.
    pub(crate) fn at_next_item(&mut self, byte: u8)
        ensures { state_of self.new ≡ at_next_item (state_of self.old) byte }
    {
        if is_space(byte) {
            return;
        }
        match byte {
            b'{' => self.open(Place::Member),
            _ => self.refuse(Refusal::NoAnswer),
        }
    }

    /// Reads a byte after an item of a list.
    pub(crate) fn after_item(&mut self, byte: u8)
        ensures { state_of self.new ≡ after_item (state_of self.old) byte }
    {
        if is_space(byte) {
            return;
        }
        match byte {
            b',' => self.stand_at(Place::NextItem),
            b']' => self.close_list(),
            _ => self.refuse(Refusal::NotJson),
        }
    }

    /// Reads the opening bracket of a response that is a JSON list. The parser rejects a response that is a list if the
    /// caller requested the `change` lines of a script's output (`Changes`).
    pub(crate) fn open_list(&mut self)
        ensures { state_of self.new ≡ list_opened (state_of self.old) }
    {
        if wants_changes(self.wanted) {
            self.refuse(Refusal::NoAnswer);
        } else {
            self.open(Place::Item);
        }
    }
}
