//! Revision ids.
ghost use Rattle.std.specs.Prelude.{◌≡◌, ◌≤◌, Ok, IfSome, IfOk, position, refl};
ghost use Rattle.std.specs.Ordering.{eq_by_cmp, as_partial_cmp};
ghost use Rattle.std.specs.Cmp;
ghost use Rattle.std.specs.Cmp.{eq_by_cmp_equiv};
ghost use Rattle.rev_core.specs.Rev.{rev_cmp};
ghost use Rattle.rev_core.specs.RevOrder.{rev_cmp_total, hashed, hashed_alike};
ghost use Rattle.rev_core.specs.Text.{generation_read, is_dash};

use crate::fault::RevFault;
use crate::sig::Sig;
use std::alloc::{AllocError, Global};
use std::cmp::Ordering;
use std::hash::{Hash, Hasher};
use std::marker::Model;

/// A revision id `N-sig`: a generation from 1 to 4,294,967,295, and a signature.
///
/// A `Rev` has a fixed size, and is copied without allocating. Revisions are ordered by generation, then by signature.
#[derive(Clone, Copy, Debug)]
pub struct Rev {
    generation: u32,
    sig: Sig,
}

impl Model for Rev {
    ghost use Rattle.rev_core.specs.Rev.{RevId, IsRev};

    ghost Value = { RevId };

    ghost view = { λ r. record { generation = r.generation; sig = r.sig } };

    ghost invariant = { λ r. IsRev (record { generation = r.generation; sig = r.sig }) };

    ghost inverse = { λ r. record { generation = r.generation; sig = r.sig } };
}

impl Rev {
    ghost use Rattle.rev_core.specs.Rev.{RevId, IsRev};
    ghost use Rattle.rev_core.specs.Text.{rev_read, rev_text};

    /// Creates a revision from its parts.
    pub fn new(generation: u32, sig: Sig) -> Rev
        requires { 1 ≤ generation }
        ensures parts { result ≡ record { generation = generation; sig = sig } }
        ensures is_rev { IsRev result }
    {
        let _text = sig.bytes();
        Rev { generation, sig }
    }

    /// Parses a revision id. `parse` splits the string at the first `-`. If `parse` returns a revision for a string,
    /// `write` returns the same string for this revision.
    ///
    /// # Errors
    ///
    /// - `BadGeneration`: the string has no `-`, or the part before the first `-` is not a generation.
    /// - `BadSig`: the part after the `-` is not a signature.
    pub fn parse(text: &[u8]) -> Result<Rev, RevFault>
        ensures read { result ≡ rev_read text.now }
        ensures own_text { IfOk result (λ r. rev_text r ≡ text.now) }
    {
        let Some(dash) = first_dash(text) else {
            return Err(RevFault::BadGeneration);
        };
        let Some(generation) = generation_of(&text[..dash]) else {
            return Err(RevFault::BadGeneration);
        };
        match Sig::parse(&text[dash + 1..]) {
            Ok(sig) => Ok(Rev::new(generation, sig)),
            Err(fault) => Err(fault),
        }
    }

    /// Formats the revision as a string, which parses back to the same revision.
    pub fn write(&self, alloc: Global) -> Result<Vec<u8>, AllocError>
        ensures text { IfOk result (λ v. v.items ≡ rev_text self.now) }
        ensures parses_back { rev_read (rev_text self.now) ≡ Ok self.now }
    {
        let generation = self.generation();
        let mut bytes = format!(in alloc; "{generation}-")?.into_bytes();
        bytes.extend_from_slice(self.sig.bytes())?;
        Ok(bytes)
    }

    /// Returns the generation.
    pub fn generation(&self) -> u32
        ensures part { result ≡ self.now.generation }
        ensures is_rev { IsRev self.now }
    {
        self.generation
    }

    /// Returns the signature.
    pub fn sig(&self) -> Sig
        ensures { result ≡ self.now.sig }
    {
        self.sig
    }

    /// Returns a reference to the signature.
    pub(crate) fn signature(&self) -> &Sig
        ensures { result.now ≡ self.now.sig }
    {
        &self.sig
    }

    /// Returns the bytes of the signature.
    pub fn sig_bytes(&self) -> &[u8]
        ensures { result.now ≡ self.now.sig }
    {
        self.sig.bytes()
    }
}

impl PartialEq for Rev {
    ghost eq = { eq_by_cmp rev_cmp };

    ghost laws = { Cmp.partial_equiv_from_equiv (eq_by_cmp_equiv rev_cmp_total) };

    fn eq(&self, other: &Rev) -> bool {
        // The comparison begins with the generations, because most pairs of compared revisions have different
        // generations.
        if self.generation != other.generation {
            return false;
        }
        self.sig == other.sig
    }
}

impl Eq for Rev {
    ghost laws = { eq_by_cmp_equiv rev_cmp_total };
}

impl PartialOrd for Rev {
    ghost partial_cmp = { as_partial_cmp rev_cmp };

    ghost laws = { Cmp.po rev_cmp_total (λ x y. refl) };

    fn partial_cmp(&self, other: &Rev) -> Option<Ordering> {
        Some(self.cmp(other))
    }
}

impl Ord for Rev {
    ghost cmp = { rev_cmp };

    ghost total = { rev_cmp_total };

    ghost matches_partial_cmp = { λ x y. refl };

    ghost matches_eq = { λ x y. refl };

    fn cmp(&self, other: &Rev) -> Ordering {
        let by_generation = self.generation.cmp(&other.generation);
        if by_generation.is_ne() {
            return by_generation;
        }
        self.sig.cmp(&other.sig)
    }
}

impl Hash for Rev {
    ghost hash_input = { hashed };

    ghost respects_eq = { hashed_alike };

    fn hash<H: Hasher>(&self, state: &mut H) {
        self.generation.hash(state);
        self.sig.hash(state);
    }
}

/// Returns the index of the first `-` in a string.
fn first_dash(text: &[u8]) -> Option<usize>
    ensures { result ≡ position is_dash text.now }
{
    text.iter().position(|b| *b == b'-')
}

/// Parses a generation.
fn generation_of(text: &[u8]) -> Option<u32>
    ensures value { result ≡ generation_read text.now }
    ensures low { IfSome result (λ n. 1 ≤ n) }
{
    if text.is_empty() || text[0] < b'1' {
        return None;
    }
    let mut value: u64 = 0;
    for b in text {
        if *b < b'0' || *b > b'9' {
            return None;
        }
        value = value * 10 + u64::from(*b - b'0');
        if value >= 4_294_967_296 {
            return None;
        }
    }
    Some(value as u32)
}
