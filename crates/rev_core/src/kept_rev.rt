//! Compact revisions.
ghost use Rattle.std.specs.Prelude.{◌≡◌};
ghost use Rattle.rev_core.specs.Rev.{RevId};
ghost use Rattle.rev_core.specs.KeptRev.{short_of};

use crate::rev::Rev;
use crate::short_sig::ShortSig;
use std::alloc::{AllocError, Global};
use std::marker::Model;

/// A compact revision, which takes 24 bytes instead of the 72 bytes of a `Rev`, for lists of many revisions.
///
/// A revision with a short signature is stored in the `KeptRev` itself. A revision whose signature is not short is
/// stored in a heap block. A signature is short if it has at most 16 bytes, or consists of the 32 lower-case
/// hexadecimal digits of a digest. Most signatures are digests.
#[derive(Debug)]
pub struct KeptRev {
    form: Form,
}

// `Drop` is implemented by hand. The code of `#[derive(Drop)]` would be proved again in each crate that owns a
// `KeptRev` (docs/DECISIONS.md, "Letting values go").
impl Drop for KeptRev {
    fn drop(self) {
        let KeptRev { form: _ } = self;
    }
}

/// The two forms in which a compact revision is stored.
#[derive(Debug, Drop)]
enum Form {
    Short {
        len: u8,
        generation: u32,
        front: u64,
        back: u64,
    },
    Long(Box<Rev>),
}

impl Model for KeptRev {
    ghost use Rattle.rev_core.specs.Rev.{RevId, IsRev};
    ghost use Rattle.rev_core.specs.KeptForm.{rev_of};

    ghost Value = { RevId };

    ghost view = { λ k. rev_of k.form };

    ghost invariant = { λ k. IsRev (rev_of k.form) };
}

impl KeptRev {
    ghost use Rattle.std.specs.Prelude.{IfOk};

    /// Converts a revision to a compact revision. The call allocates only if the signature has more than 16 bytes and
    /// is not 32 lower-case hexadecimal digits.
    pub fn keep(alloc: Global, rev: &Rev) -> Result<KeptRev, AllocError>
        ensures { IfOk result (λ k. k ≡ rev.now) }
    {
        match KeptRev::short(rev) {
            Some(short) => Ok(short),
            None => KeptRev::long(alloc, rev),
        }
    }

    /// Converts a revision with a short signature to a compact revision, without allocating. Returns `None` if the
    /// revision's signature is not short.
    // The function `short` is not inlined, because an edit executes more instructions if `short` is inlined.
    #[inline(never)]
    pub fn short(rev: &Rev) -> Option<KeptRev>
        ensures { result ≡ short_of rev.now }
    {
        let generation = rev.generation();
        let ShortSig { len, front, back } = ShortSig::of(rev.signature())?;
        Some(KeptRev {
            form: Form::Short {
                len,
                generation,
                front,
                back,
            },
        })
    }

    /// Stores a revision in a heap block.
    fn long(alloc: Global, rev: &Rev) -> Result<KeptRev, AllocError>
        ensures { IfOk result (λ k. k ≡ rev.now) }
    {
        let _generation = rev.generation();
        Ok(KeptRev {
            form: Form::Long(Box::new(alloc, *rev)?),
        })
    }

    /// Returns the revision.
    pub fn rev(&self) -> Rev
        ensures { result ≡ self.now }
    {
        match &self.form {
            Form::Short {
                len,
                generation,
                front,
                back,
            } => {
                let short = ShortSig {
                    len: *len,
                    front: *front,
                    back: *back,
                };
                Rev::new(*generation, short.sig())
            }
            Form::Long(rev) => **rev,
        }
    }

    /// Copies the revision.
    pub fn copy(&self, alloc: Global) -> Result<KeptRev, AllocError>
        ensures { IfOk result (λ k. k ≡ self.now) }
    {
        match &self.form {
            Form::Short {
                len,
                generation,
                front,
                back,
            } => Ok(KeptRev {
                form: Form::Short {
                    len: *len,
                    generation: *generation,
                    front: *front,
                    back: *back,
                },
            }),
            Form::Long(rev) => KeptRev::long(alloc, rev),
        }
    }
}
