//! Flags that say which strings of a line are known to need no escapes.
ghost use Rattle.std.specs.Prelude.{◌≡◌, true, false};
ghost use Rattle.json_values.specs.Plain.{Narrows};

/// Flags that say which strings of a line are known to need no escapes. A string that needs no escapes contains no
/// quotation mark, no backslash and no control byte, so it can be written as JSON unchanged.
#[derive(Clone, Copy, Drop)]
pub struct PlainTexts {
    /// Whether the names of all members are known to need no escapes.
    pub names: bool,
    /// Whether all strings of the line, except members' names, are known to need no escapes.
    pub values: bool,
}

impl PlainTexts {
    /// Returns the flags after a string with escapes was read. The call clears the flag `names` if the string is a
    /// member's name, and otherwise the flag `values`.
    pub(crate) fn with_escaped(self, is_name: bool) -> PlainTexts
        ensures narrows { Narrows self result }
        ensures name { is_name ≡ true → result.names ≡ false }
        ensures value { is_name ≡ false → result.values ≡ false }
    {
        PlainTexts {
            names: self.names & !is_name,
            values: self.values & is_name,
        }
    }
}
