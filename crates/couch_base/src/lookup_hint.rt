//! Hints for looking up documents in order.

/// A hint for the next lookup: the position after the document that the previous lookup found.
///
/// Documents are often looked up in the order in which they are stored. A lookup computes no hash if the document is at
/// the position of the hint. Hints do not affect the results of lookups.
#[derive(Drop)]
pub struct LookupHint {
    pub(crate) place: usize,
}

impl LookupHint {
    /// Creates a hint with the position of the first document.
    pub fn new() -> LookupHint {
        LookupHint { place: 0 }
    }
}
