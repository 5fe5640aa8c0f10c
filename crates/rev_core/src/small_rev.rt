//! Revisions that take 40 bytes of memory (`SmallRev`).
ghost use Rattle.std.specs.Prelude.{◌≡◌, ◌+◌, ◌<◌, ◌≤◌, false, take, drop, length, IfOk};
ghost use Rattle.rev_core.specs.Rev.{RevId, IsRev, rev_cmp};
ghost use Rattle.rev_core.specs.Sig.{padded};
ghost use Rattle.rev_core.specs.SmallRev.{is_long};

use crate::rev::Rev;
use crate::sig::Sig;
use std::alloc::{AllocError, Global};
use std::cmp::Ordering;
use std::marker::Model;

/// The maximum number of bytes of a signature that a `SmallRev` stores without a heap block.
const MOST_INLINE: usize = 32;

/// The second half of the 64 bytes of a signature, if the signature has at most 32 bytes.
const ZEROS: [u8; 32] = [0; 32];

/// A small revision, which takes 40 bytes instead of the 72 bytes of a `Rev`.
///
/// A revision whose signature has at most 32 bytes is stored in the `SmallRev` itself. A signature of more than 32
/// bytes is stored in a heap block. A `KeptRev` takes 24 bytes, but must be unpacked before it is compared.
#[derive(Debug)]
pub struct SmallRev {
    form: Form,
}

// `Drop` is implemented by hand. The code of `#[derive(Drop)]` would be proved again in each crate that owns a
// `SmallRev` (docs/DECISIONS.md, "Letting values go").
impl Drop for SmallRev {
    fn drop(self) {
        let SmallRev { form: _ } = self;
    }
}

/// The two forms in which a `SmallRev` stores a revision, with the signature either in the `SmallRev` itself or in a
/// heap block.
#[derive(Debug, Drop)]
enum Form {
    Inline {
        len: u8,
        generation: u32,
        bytes: [u8; 32],
    },
    Long {
        generation: u32,
        sig: Box<Sig>,
    },
}

impl Model for SmallRev {
    ghost use Rattle.rev_core.specs.Rev.{RevId, IsRev};
    ghost use Rattle.rev_core.specs.SmallForm.{rev_of, IsSmall};

    ghost Value = { RevId };

    ghost view = { λ r. rev_of r.form };

    ghost invariant = { λ r. IsRev (rev_of r.form) × IsSmall r.form };
}

impl SmallRev {
    /// Whether a `SmallRev` stores the revision's signature in a heap block, because the signature has more than 32
    /// bytes.
    pub fn is_long(rev: &Rev) -> bool
        ensures { result ≡ is_long rev.now }
    {
        rev.sig_bytes().len() > MOST_INLINE
    }

    /// Converts a revision whose signature has at most 32 bytes to a `SmallRev`.
    pub fn inline(rev: &Rev) -> SmallRev
        requires { is_long rev.now ≡ false }
        ensures { result ≡ rev.now }
    {
        SmallRev {
            form: Form::Inline {
                len: rev.signature().len(),
                generation: rev.generation(),
                bytes: rev.signature().half(),
            },
        }
    }

    /// Converts a revision to a `SmallRev`, without allocating. The call removes the last heap block from the list
    /// `blocks`, and stores the signature in this block.
    pub fn long(rev: &Rev, blocks: &mut Vec<Box<Sig>>) -> SmallRev
        requires { 0 < length blocks.old.items }
        ensures rev { result ≡ rev.now }
        ensures blocks { length blocks.old.items ≡ length blocks.new.items + 1 }
    {
        let generation = rev.generation();
        let Some(mut sig) = blocks.pop() else {
            unreachable!()
        };
        *sig = rev.sig();
        SmallRev {
            form: Form::Long { generation, sig },
        }
    }

    /// Returns the revision as a `Rev`.
    #[inline(always)]
    pub fn to_rev(&self) -> Rev
        ensures { result ≡ self.now }
    {
        let generation = self.generation();
        let sig = Sig::of_halves(self.head(), self.tail(), self.len());
        Rev::new(generation, sig)
    }

    /// Returns the first 32 bytes of the signature, with zeros after the end of a shorter signature.
    fn head(&self) -> &[u8]
        ensures { result.now ≡ take 32 (padded self.now.sig) }
    {
        match &self.form {
            Form::Inline {
                len: _,
                generation: _,
                bytes,
            } => bytes,
            Form::Long { generation: _, sig } => sig.head(),
        }
    }

    /// Returns the 32 bytes that follow the first 32 bytes of the signature, with zeros after the end of the signature.
    fn tail(&self) -> &[u8]
        ensures { result.now ≡ drop 32 (padded self.now.sig) }
    {
        match &self.form {
            Form::Inline {
                len: _,
                generation: _,
                bytes: _,
            } => &ZEROS,
            Form::Long { generation: _, sig } => sig.tail(),
        }
    }

    /// Returns the number of bytes of the signature.
    fn len(&self) -> u8
        ensures { result ≡ length self.now.sig }
    {
        match &self.form {
            Form::Inline {
                len,
                generation: _,
                bytes: _,
            } => *len,
            Form::Long { generation: _, sig } => sig.len(),
        }
    }

    /// Returns the generation.
    pub fn generation(&self) -> u32
        ensures part { result ≡ self.now.generation }
        ensures is_rev { IsRev self.now }
    {
        match &self.form {
            Form::Inline {
                len: _,
                generation,
                bytes: _,
            } => *generation,
            Form::Long { generation, sig: _ } => *generation,
        }
    }

    /// Returns the bytes of the signature.
    pub fn sig_bytes(&self) -> &[u8]
        ensures { result.now ≡ self.now.sig }
    {
        match &self.form {
            Form::Inline {
                len,
                generation: _,
                bytes,
            } => &bytes[..*len as usize],
            Form::Long { generation: _, sig } => sig.bytes(),
        }
    }

    /// Compares two revisions, by generation and then by signature.
    pub fn order(&self, other: &SmallRev) -> Ordering
        ensures { result ≡ rev_cmp self.now other.now }
    {
        let by_generation = self.generation().cmp(&other.generation());
        if by_generation.is_ne() {
            return by_generation;
        }
        // The comparison begins with the first byte, because most pairs of compared signatures have different first
        // bytes.
        let (one, two) = (self.sig_bytes(), other.sig_bytes());
        if one[0] != two[0] {
            return one[0].cmp(&two[0]);
        }
        one.cmp(two)
    }

    /// Copies the revision. The call allocates only if the signature has more than 32 bytes.
    pub fn copy(&self, alloc: Global) -> Result<SmallRev, AllocError>
        ensures { IfOk result (λ r. r ≡ self.now) }
    {
        match &self.form {
            Form::Inline {
                len,
                generation,
                bytes,
            } => Ok(SmallRev {
                form: Form::Inline {
                    len: *len,
                    generation: *generation,
                    bytes: *bytes,
                },
            }),
            Form::Long { generation, sig } => copy_long(alloc, *generation, sig),
        }
    }
}

/// Copies a revision whose signature is stored in a heap block.
// If `copy_long` were inlined, copying other revisions would take more instructions.
#[inline(never)]
fn copy_long(alloc: Global, generation: u32, sig: &Sig) -> Result<SmallRev, AllocError>
    requires { 1 ≤ generation }
    ensures { IfOk result (λ r. r ≡ record { generation = generation; sig = sig.now }) }
{
    let _text = sig.bytes();
    Ok(SmallRev {
        form: Form::Long {
            generation,
            sig: Box::new(alloc, *sig)?,
        },
    })
}
