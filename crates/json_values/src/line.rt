//! JSON values whose strings are borrowed from the text that was read.
ghost use Rattle.std.specs.Prelude.{◌≡◌, ◌≢◌, IsTrue, length, option_map, is_some, option_and_then};
ghost use Rattle.std.specs.Str.{bytes_eq};
ghost use Rattle.serde_json.specs.Find.{get, get_member, as_object, as_array, as_str, as_bool, as_number, as_u64};
ghost use Rattle.json_values.specs.LineView.{line_view, line_items, line_members};

use serde_json::Number;

/// A JSON value that was read from a line. The strings of the value are slices of the line or, if a string had escapes,
/// of the reader's buffer. The arrays and objects of the value are slices of the reader's arena. The members of an
/// object are in byte order of their names, and each name occurs once.
#[derive(Clone, Copy, Drop)]
pub enum LineValue<'a> {
    Null,
    Bool(bool),
    Number(Number),
    String(&'a str),
    Array(&'a [LineValue<'a>]),
    Object(&'a [(&'a str, LineValue<'a>)]),
}

impl<'a> LineValue<'a> {
    /// Returns the member with a name, if the value is an object that has this member.
    pub fn get(&self, name: &str) -> Option<&LineValue<'a>>
        ensures { option_map (λ v. line_view v.now) result ≡ get name.now (line_view self.now) }
    {
        match self {
            LineValue::Object(members) => find(members, name),
            _ => None,
        }
    }

    /// Returns the members, if the value is an object.
    pub fn as_object(&self) -> Option<&'a [(&'a str, LineValue<'a>)]>
        ensures { option_map (λ m. line_members m.now) result ≡ as_object (line_view self.now) }
    {
        if let LineValue::Object(members) = self {
            Some(*members)
        } else {
            None
        }
    }

    /// Whether the value is an object.
    pub fn is_object(&self) -> bool
        ensures { result ≡ is_some (as_object (line_view self.now)) }
    {
        self.as_object().is_some()
    }

    /// Returns the items, if the value is an array.
    pub fn as_array(&self) -> Option<&'a [LineValue<'a>]>
        ensures { option_map (λ v. line_items v.now) result ≡ as_array (line_view self.now) }
    {
        if let LineValue::Array(items) = self {
            Some(*items)
        } else {
            None
        }
    }

    /// Returns the string, if the value is a string.
    pub fn as_str(&self) -> Option<&'a str>
        ensures { option_map (λ s. s.now) result ≡ as_str (line_view self.now) }
    {
        if let LineValue::String(text) = self {
            Some(*text)
        } else {
            None
        }
    }

    /// Returns the Boolean, if the value is a Boolean.
    pub fn as_bool(&self) -> Option<bool>
        ensures { result ≡ as_bool (line_view self.now) }
    {
        if let LineValue::Bool(b) = self {
            Some(*b)
        } else {
            None
        }
    }

    /// Returns the number, if the value is a number from 0 to 2^64 - 1.
    pub fn as_u64(&self) -> Option<u64>
        ensures { result ≡ option_and_then as_u64 (as_number (line_view self.now)) }
    {
        match self {
            LineValue::Number(number) => number.as_u64(),
            _ => None,
        }
    }
}

/// Finds the member with a name in a sorted list of members.
fn find<'v, 'a>(members: &'v [(&'a str, LineValue<'a>)], name: &str) -> Option<&'v LineValue<'a>>
    ensures { option_map (λ v. line_view v.now) result ≡ get_member name.now (line_members members.now) }
{
    for member in members {
        if is_same_text(name, member.0) {
            return Some(&member.1);
        }
    }
    None
}

/// Whether two strings are equal. The comparison begins with the lengths and the last bytes, which usually show whether
/// the strings are equal.
#[inline(always)]
pub fn is_same_text(a: &str, b: &str) -> bool
    ensures { result ≡ bytes_eq a.now b.now }
{
    let (x, y) = (a.as_bytes(), b.as_bytes());
    if x.len() != y.len() {
        return false;
    }
    if ends_apart(x, y) {
        return false;
    }
    a == b
}

/// Whether the last bytes of two strings of the same length differ.
#[inline(always)]
fn ends_apart(x: &[u8], y: &[u8]) -> bool
    requires { length x.now ≡ length y.now }
    ensures { IsTrue result → x.now ≢ y.now }
{
    !x.is_empty() && x[x.len() - 1] != y[y.len() - 1]
}
