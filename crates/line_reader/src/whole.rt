//! Reads a complete input into memory.
ghost use Rattle.std.specs.Prelude.{◌≡◌, ℕ, List, IfOk, IfErr, OnErr, OnOk};
ghost use Rattle.std.specs.Io.KnownBytes.{Appends, IsAtEnd};
ghost use Rattle.script_engine.specs.Device.{Gives};
ghost use Rattle.script_engine.specs.Faults.{IsFaultOf};

use script_engine::{Chunks, ScriptFault, ScriptRead};
use std::alloc::Global;

/// Reads all remaining bytes of a reader, and returns these bytes.
///
/// # Errors
///
/// Returns `Read` if the reader failed in this call, or after 4,294,967,295 reads of at most 65,536 bytes. Returns
/// `Memory` if an allocation failed.
pub fn read_all<R: ScriptRead>(alloc: Global, reader: &mut R) -> Result<Vec<u8>, ScriptFault>
    ensures ok { IfOk result (λ bytes. Gives (R.left reader.old) bytes.items) }
    ensures took { IfOk result (λ bytes. Appends (R.taken reader.old) (R.taken reader.new) bytes.items) }
    ensures err { OnErr result ((input : List ℕ) × Appends (R.taken reader.old) (R.taken reader.new) input) }
    ensures end { OnOk result (IsAtEnd (R.left reader.new)) }
    ensures ended { OnOk result (R.ended reader.new) }
    ensures counted { OnOk result (R.failures reader.new ≡ R.failures reader.old) }
    ensures fault { IfErr result (λ fault. IsFaultOf fault (R.reads reader.old) (R.reads reader.new)
        (R.failures reader.old) (R.failures reader.new) 0 0) }
{
    let mut chunks = Chunks::new(alloc)?;
    let mut bytes = Vec::new(alloc);
    loop {
        let more = match chunks.next(reader) {
            Ok(more) => more,
            Err(fault) => return Err(fault),
        };
        if !more {
            return Ok(bytes);
        }
        bytes.extend_from_slice(chunks.bytes())?;
    }
}
