//! Timestamps.
ghost use Rattle.std.specs.Prelude.{◌≡◌, ◌<◌, nat_lt, if◌then◌else◌, Ok, Err};

use crate::fault::LogFault;
use std::marker::Model;

/// The first second that is not a valid timestamp, which is the beginning of the year 10000.
const END: u64 = 253_402_300_800;

/// A timestamp in seconds since 1 January 1970, up to the end of the year 9999 (docs/PROFILE.md, "Limits").
#[derive(Clone, Copy, Debug, PartialEq, Eq, PartialOrd, Ord)]
pub struct Moment {
    seconds: u64,
}

impl Model for Moment {
    ghost use Rattle.std.specs.Prelude.{ℕ, ◌<◌};

    ghost Value = { ℕ };

    ghost view = { λ m. m.seconds };

    ghost invariant = { λ m. m.seconds < 253_402_300_800 };

    ghost inverse = { λ n. record { seconds = n } };
}

impl Moment {
    /// Creates a timestamp from seconds since 1970. Returns `BadMoment` if the seconds exceed 253,402,300,799.
    pub fn new(seconds: u64) -> Result<Moment, LogFault>
        ensures { result ≡ (if nat_lt seconds 253_402_300_800 then Ok seconds else Err LogFault.BadMoment) }
    {
        if seconds < END {
            Ok(Moment { seconds })
        } else {
            Err(LogFault::BadMoment)
        }
    }

    /// Returns the seconds since 1970.
    pub fn seconds(&self) -> u64
        ensures value { result ≡ self.now }
        ensures in_range { self.now < 253_402_300_800 }
    {
        self.seconds
    }
}
