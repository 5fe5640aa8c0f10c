//! The bytes that came through a stream, as a ghost value that only contracts can use.
ghost use Rattle.std.specs.Prelude.{◌≡◌, ℕ, List};
ghost use Rattle.std.specs.Borrow.{ftrue};

use std::marker::Model;

/// All bytes that came through a stream, in order. A `Passed` takes no memory, because its field `bytes` is ghost: only
/// contracts can use the field.
#[derive(Drop)]
pub struct Passed {
    pub ghost bytes: { List ℕ },
}

impl Model for Passed {
    ghost also_owns = { λ _. ftrue };
}

/// The start of a stream, or bytes that came through a stream after earlier bytes.
#[derive(Clone, Copy, Drop)]
pub(crate) enum Pass<'a> {
    /// The start of a stream, before any bytes came through the stream.
    Nothing,
    /// All earlier bytes of the stream, followed by further bytes of the stream.
    More(&'a Passed, &'a [u8]),
}

impl Passed {
    ghost use Rattle.script_engine.specs.Passed.{passed_bytes};

    /// Returns all bytes that came through a stream up to the end of the step `_pass`.
    #[inline(always)]
    pub(crate) fn of(_pass: &Pass<'_>) -> Passed
        ensures { result.bytes ≡ passed_bytes _pass.now }
    {
        Passed {}
    }
}
