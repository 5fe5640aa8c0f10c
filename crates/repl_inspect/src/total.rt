//! Totals of comparisons.
ghost use Rattle.std.specs.Prelude.{◌≡◌, ◌++◌, ◌∷◌, [], List};
ghost use Rattle.repl_inspect.specs.Comparing.{ComparisonValue};
ghost use Rattle.repl_inspect.specs.Totals.{total_of};

use crate::comparison::Comparison;
use crate::counting::{plus, plus_if};

/// The totals of several comparisons of documents. Each count is capped at 9,007,199,254,740,991.
#[derive(Clone, Copy, Debug, PartialEq, Eq)]
pub struct Total {
    /// The number of compared documents.
    pub documents: u64,
    /// The number of leaves that the compared documents have at the source.
    pub leaves: u64,
    /// The number of the source's leaves that the target's trees lack.
    pub missing: u64,
    /// The number of documents whose ancestries contradict the target's trees.
    pub contradicting: u64,
    /// The number of leaves whose contents at source and target differ.
    pub differing: u64,
}

impl Total {
    /// Returns a `Total` in which all counts are 0.
    pub fn none() -> Total
        ensures { result ≡ total_of [] }
    {
        Total {
            documents: 0,
            leaves: 0,
            missing: 0,
            contradicting: 0,
            differing: 0,
        }
    }

    /// Adds a comparison to the total.
    pub fn add(&mut self, comparison: &Comparison)
        ensures { (earlier : List ComparisonValue) → self.old ≡ total_of earlier
            → self.new ≡ total_of (earlier ++ comparison.now ∷ []) }
    {
        self.documents = plus(self.documents, 1);
        self.leaves = plus(self.leaves, comparison.leaves() as u64);
        self.missing = plus(self.missing, comparison.missing().len() as u64);
        self.contradicting = plus_if(self.contradicting, comparison.contradiction().is_some());
        self.differing = plus(self.differing, comparison.differing().len() as u64);
    }
}
