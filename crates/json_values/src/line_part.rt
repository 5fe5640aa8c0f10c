//! A line that was read, and the values inside it.
ghost use Rattle.std.specs.Prelude.{◌≡◌, ◌≤◌, ◌⊎◌, IsTrue, option_map};
ghost use Rattle.json_values.specs.declared.capacities.TheConstants.{LONG_TEXT};
ghost use Rattle.serde_json.specs.Data.{object, no_members};
ghost use Rattle.serde_json.specs.Find.{get};
ghost use Rattle.json_values.specs.LineView.{line_view};
ghost use Rattle.json_values.specs.LineOrder.{IsOrdered};
ghost use Rattle.json_values.specs.Plain.{ArePlain};

use crate::capacities::LONG_TEXT;
use crate::line::LineValue;
use crate::plain_texts::PlainTexts;
use std::marker::Model;

/// A line that was read: a JSON value, and flags that say which of its strings are known to need no escapes. Contracts
/// represent a `Line` by its JSON value. The members of each object in the line are in byte order of their names.
#[derive(Drop)]
pub struct Line<'a> {
    value: LineValue<'a>,
    plain: PlainTexts,
    /// The length of the line's text, in bytes.
    len: usize,
}

impl<'a> Model for Line<'a> {
    ghost use Rattle.json_values.specs.declared.line.LineValue.{LineValue};
    ghost use Rattle.json_values.specs.LineCode.{line_value_code};

    ghost Value = { LineValue };

    ghost coded = { line_value_code };

    ghost use Rattle.json_values.specs.LineView.{line_view};
    ghost use Rattle.json_values.specs.LineOrder.{IsOrdered};
    ghost use Rattle.json_values.specs.Plain.{ArePlain};

    ghost view = { λ a. a.value };

    ghost invariant = { λ a. IsOrdered (line_view a.value) × ArePlain a.plain (line_view a.value) };
}

impl<'a> Line<'a> {
    /// Creates a line from a JSON value and the length of the line's text.
    pub(crate) fn new(value: LineValue<'a>, plain: PlainTexts, len: usize) -> Line<'a>
        requires order { IsOrdered (line_view value) }
        requires plain { ArePlain plain (line_view value) }
        ensures { result ≡ value.entry }
    {
        Line { value, plain, len }
    }

    /// Creates a line whose value is an empty object.
    pub fn empty_object() -> Line<'a>
        ensures { line_view result ≡ object no_members }
    {
        let plain = PlainTexts {
            names: true,
            values: true,
        };
        Line::new(LineValue::Object(&[]), plain, 0)
    }

    /// Returns the value.
    #[inline(always)]
    pub fn value(&self) -> &LineValue<'a>
        ensures { result.now ≡ self.now }
    {
        &self.value
    }

    /// Returns the complete value of the line as a `LinePart`.
    pub fn part(&self) -> LinePart<'_, 'a>
        ensures { result ≡ self.now }
    {
        LinePart {
            value: &self.value,
            plain: self.plain,
            len: self.len,
        }
    }

    /// Returns the member with a name, if the value is an object that has this member.
    #[inline(always)]
    pub fn get(&self, name: &str) -> Option<LinePart<'_, 'a>>
        ensures { option_map line_view result ≡ get name.now (line_view self.now) }
    {
        match self.value.get(name) {
            Some(value) => Some(LinePart {
                value,
                plain: self.plain,
                len: self.len,
            }),
            None => None,
        }
    }
}

/// A JSON value inside a line. Contracts represent a `LinePart` by its JSON value. The members of each object in the
/// line are in byte order of their names.
#[derive(Drop)]
pub struct LinePart<'v, 'a> {
    value: &'v LineValue<'a>,
    plain: PlainTexts,
    /// The length of the complete line's text, in bytes.
    len: usize,
}

impl<'v, 'a> Model for LinePart<'v, 'a> {
    ghost use Rattle.json_values.specs.declared.line.LineValue.{LineValue};
    ghost use Rattle.json_values.specs.LineCode.{line_value_code};

    ghost Value = { LineValue };

    ghost coded = { line_value_code };

    ghost use Rattle.json_values.specs.LineView.{line_view};
    ghost use Rattle.json_values.specs.LineOrder.{IsOrdered};
    ghost use Rattle.json_values.specs.Plain.{ArePlain};

    ghost view = { λ a. a.value.now };

    ghost invariant = { λ a. IsOrdered (line_view a.value.now) × ArePlain a.plain (line_view a.value.now) };
}

impl<'v, 'a> LinePart<'v, 'a> {
    /// Returns the value.
    #[inline(always)]
    pub fn value(&self) -> &'v LineValue<'a>
        ensures value { result.now ≡ self.now }
        ensures order { IsOrdered (line_view self.now) }
    {
        self.value
    }

    /// Returns flags that say which strings of the value are known to need no escapes.
    #[inline(always)]
    pub fn plain(&self) -> PlainTexts
        ensures { ArePlain result (line_view self.now) }
    {
        self.plain
    }

    /// Returns the length of the complete line's text in bytes, or 0 if the text is shorter than `LONG_TEXT`. If all
    /// numbers in a JSON value are of type `i64` or `u64`, the value's compact form is at most as long as the line's
    /// text.
    ///
    /// Callers use the length only to reserve capacity. The contract of `long_len` therefore says only that the result
    /// is 0 or at least `LONG_TEXT`.
    #[inline(always)]
    pub fn long_len(&self) -> usize
        ensures { (result ≡ 0) ⊎ (LONG_TEXT ≤ result) }
    {
        if self.len < LONG_TEXT { 0 } else { self.len }
    }
}
