//! Counts the lines of the input, and the lines that `couch_replicate` does not print.
ghost use Rattle.std.specs.Prelude.{◌≡◌};
ghost use Rattle.diagrams.specs.Tallies.{with_line, with_told, with_unknown};

use output_parser::Told;

/// The counts of lines. Blank lines are not counted, and each count is at most 2^64 - 1.
#[derive(Clone, Copy, Debug, PartialEq, Eq)]
pub struct Tally {
    /// The number of input lines, without blank lines.
    pub lines: u64,
    /// The number of input lines that cannot be output of `couch_replicate`, for example lines of another program.
    pub unknown: u64,
    /// The number (without blank lines) of the first input line that cannot be output of `couch_replicate`, or 0 if all
    /// input lines can be output.
    pub first: u64,
}

/// The result of drawing an input to its end.
#[derive(Clone, Copy, Debug, PartialEq, Eq)]
pub struct Outcome {
    /// Whether memory was sufficient for every line of the input.
    pub clean: bool,
    /// The counts of the input's lines.
    pub tally: Tally,
}

impl Tally {
    /// Returns the line counts after one more line that `couch_replicate` can print.
    pub fn with_line(self) -> Tally
        ensures { result ≡ with_line self }
    {
        Tally {
            lines: self.lines.saturating_add(1),
            unknown: self.unknown,
            first: self.first,
        }
    }

    /// Returns the line counts after one more line, which has the contents `told`.
    pub fn with_told(self, told: &Told) -> Tally
        ensures { result ≡ with_told self told.now }
    {
        match told {
            Told::Unknown => self.with_unknown(),
            _ => self.with_line(),
        }
    }

    /// Returns the line counts after one more line that `couch_replicate` cannot print.
    fn with_unknown(self) -> Tally
        ensures { result ≡ with_unknown self }
    {
        let lines = self.lines.saturating_add(1);
        Tally {
            lines,
            unknown: self.unknown.saturating_add(1),
            first: if self.unknown == 0 { lines } else { self.first },
        }
    }
}
