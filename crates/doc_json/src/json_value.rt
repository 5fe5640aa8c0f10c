//! The interface to JSON values that documents are read from.
ghost use Rattle.std.specs.Prelude.{◌≡◌, ◌++◌, false, map, option_map, MatchOption, IfSome, OnOk};
ghost use Rattle.serde_json.specs.Data.{Data, Members, no_members, member};
ghost use Rattle.serde_json.specs.Find.{get, as_object, as_array, as_str, as_bool, as_number};
ghost use Rattle.serde_json.specs.View.{items_of, number_view};
ghost use Rattle.serde_json.specs.Written.{compact_text, has_float};
ghost use Rattle.json_values.specs.LineOrder.{AllBehind, IsOrdered};
ghost use Rattle.json_values.specs.Plain.{ArePlain};
ghost use Rattle.doc_json.specs.Numbers.{AllReadBack};

use json_values::PlainTexts;
use serde_json::Number;
use std::alloc::AllocError;

/// A JSON value from which a document is read. The type of the value is `Value` (of `serde_json`) or `LineValue` (of
/// `json_values`).
///
/// Contract clauses describe a JSON value by its data (`seen`). The ghost value `in_order` says whether the members of
/// an object are sorted by name, byte by byte. The members of a `Value` are always sorted by name. The caller must
/// guarantee that the members of a `LineValue` are sorted by name.
pub(crate) trait JsonValue<'v>: Sized + 'v {
    /// An iterator over the members of a JSON object.
    type Object;

    /// An iterator over members.
    type Members: Drop;

    ghost seen: { Self → Data };

    ghost members_seen: { Self.Object → Members };

    ghost left: { Self.Members → Members };

    ghost in_order: { Self → Type 0 };

    ghost members_in_order: { Self.Object → Type 0 };

    ghost left_in_order: { Self.Members → Type 0 };

    /// Returns the string, if the value is a string.
    fn as_str(&'v self) -> Option<&'v str>
        ensures { option_map (λ s. s.now) result ≡ as_str (seen self.now) };

    /// Returns the Boolean, if the value is a Boolean.
    fn as_bool(&'v self) -> Option<bool>
        ensures { result ≡ as_bool (seen self.now) };

    /// Returns the number, if the value is a number.
    fn as_number(&'v self) -> Option<&'v Number>
        ensures { option_map (λ n. number_view n.now) result ≡ as_number (seen self.now) };

    /// Returns the items, if the value is an array.
    fn as_array(&'v self) -> Option<&'v [Self]>
        ensures { option_map (λ v. items_of (map seen v.now)) result ≡ as_array (seen self.now) };

    /// Returns the members, if the value is an object.
    fn as_object(&'v self) -> Option<&'v Self::Object>
        ensures members { option_map (λ o. members_seen o.now) result ≡ as_object (seen self.now) }
        ensures order { IfSome result (λ o. in_order self.now → members_in_order o.now) };

    /// Returns the member with a name, if the value is an object that has this member.
    fn get(&'v self, name: &str) -> Option<&'v Self>
        ensures { option_map (λ v. seen v.now) result ≡ get name.now (seen self.now) };

    /// Starts an iteration over the members of an object.
    fn walk(members: &'v Self::Object) -> Self::Members
        ensures members { left result ≡ members_seen members.now }
        ensures order { members_in_order members.now → left_in_order result };

    /// Returns the name and the value of the next member.
    fn next_member(members: &mut Self::Members) -> Option<(&'v str, &'v Self)>
        ensures members { MatchOption result (left members.old ≡ no_members)
            (λ m. left members.old ≡ member m.0.now (seen m.1.now) (left members.new)) }
        ensures order { IfSome result (λ m. left_in_order members.old
            → AllBehind m.0.now (left members.new) × in_order m.1.now × left_in_order members.new) };

    /// Whether the value is or contains, at any depth, a number that is neither an i64 nor a u64.
    fn has_fraction(&'v self) -> bool
        ensures { result ≡ has_float (seen self.now) };

    /// Appends the compact serialized form of the value to a buffer. The argument `plain` says which strings need no
    /// escapes when they are written as JSON.
    fn push(&'v self, plain: PlainTexts, out: &mut Vec<u8>) -> Result<(), AllocError>
        requires exact { has_float (seen self.now) ≡ false }
        requires order { in_order self.now }
        ensures text { OnOk result (ArePlain plain (seen self.now)
            → out.new.items ≡ out.old.items ++ compact_text (seen self.now)) }
        ensures numbers { OnOk result (AllReadBack (seen self.now)) }
        ensures order { OnOk result (IsOrdered (seen self.now)) };
}
