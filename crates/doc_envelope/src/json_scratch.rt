//! The memory that the crate `json` needs to parse a text.
ghost use Rattle.std.specs.Prelude.{◌≡◌, IfOk};
ghost use Rattle.doc_envelope.specs.Texts.{is_json};

use json::Scratch;
use std::alloc::{AllocError, Global};

/// The memory that the crate `json` needs to parse a text, allocated when the first text is parsed.
///
/// A `Scratch` has over 16 KB, so a `JsonScratch` stores it in a heap block. Moving a `JsonScratch` copies only the
/// address of the heap block, and not 16 KB.
#[derive(Drop)]
pub(crate) struct JsonScratch {
    block: Option<Box<Scratch>>,
}

impl JsonScratch {
    /// Creates a `JsonScratch` without allocating.
    pub(crate) fn new() -> JsonScratch {
        JsonScratch { block: None }
    }

    /// Returns the memory. The first call of `get` allocates the memory.
    pub(crate) fn get(&mut self, alloc: Global) -> Result<&mut Scratch, AllocError> {
        let block = match self.block.take() {
            Some(block) => block,
            None => Box::new(alloc, Scratch::new(alloc))?,
        };
        Ok(self.block.insert(block))
    }

    /// Whether a text is JSON in UTF-8.
    pub(crate) fn is_json(&mut self, alloc: Global, text: &[u8]) -> Result<bool, AllocError>
        ensures { IfOk result (λ json. json ≡ is_json text.now) }
    {
        let Ok(string) = simdutf8::basic::from_utf8(text) else {
            return Ok(false);
        };
        json::is_valid(string, self.get(alloc)?)
    }
}
