//! Adds one count to another, and caps the sum at 9,007,199,254,740,991.
ghost use Rattle.std.specs.Prelude.{◌≡◌, ◌+◌, if◌then◌else◌};
ghost use Rattle.repl_inspect.specs.Counting.{counted};

use couch_base::MOST_SEQUENCE;

/// Adds two counts. The sum is capped at 9,007,199,254,740,991.
pub(crate) fn plus(count: u64, more: u64) -> u64
    ensures { result ≡ counted (count + more) }
{
    if count > MOST_SEQUENCE || more > MOST_SEQUENCE - count {
        return MOST_SEQUENCE;
    }
    count + more
}

/// Adds one to a count if a condition is true.
pub(crate) fn plus_if(count: u64, holds: bool) -> u64
    ensures { result ≡ counted (count + (if holds then 1 else 0)) }
{
    plus(count, u64::from(holds))
}
