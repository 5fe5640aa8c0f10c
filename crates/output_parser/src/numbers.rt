//! Parsing numbers.
ghost use Rattle.std.specs.Prelude.{ℕ, IfSome, IfNone};
ghost use Rattle.output_parser.specs.Words.{IsNumber};

use itoa::Buffer;
use std::str;

/// Parses a decimal number without leading zeros. Returns `None` if the text is not a decimal number below 2^64, or has
/// leading zeros.
pub fn number(text: &[u8]) -> Option<u64>
    ensures some { IfSome result (λ n. IsNumber text.now n) }
    ensures none { IfNone result ((n : ℕ) → IsNumber text.now n → ⊥) }
{
    let Ok(text) = str::from_utf8(text) else {
        return None;
    };
    let Ok(number) = text.parse::<u64>() else {
        return None;
    };
    let mut digits = Buffer::new();
    if digits.format(number) == text {
        Some(number)
    } else {
        None
    }
}
