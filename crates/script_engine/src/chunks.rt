//! Reads the input of a reader in chunks.
ghost use Rattle.std.specs.Prelude.{◌≡◌, ◌+◌, ℕ, IfOk, IfErr, OnOk, OnErr, false};
ghost use Rattle.std.specs.Io.KnownBytes.{Appends, Keeps};
ghost use Rattle.script_engine.specs.Chunks.{HasRead, AreChunks, ReadsChunk, StopsReading};
ghost use Rattle.script_engine.specs.Stored.{chunk_of};
ghost use Rattle.script_engine.specs.declared.fault.ScriptFault.TheVariants.{Read};

use crate::device::ScriptRead;
use crate::fault::ScriptFault;
use std::alloc::{AllocError, Global};

/// The maximum number of times that a chunk reader calls `ScriptRead::read` (docs/PROFILE.md, "Limits").
const MAX_READS: u32 = 4294967295;

/// The maximum number of bytes that one call of `ScriptRead::read` requests.
const CHUNK: usize = 65536;

/// A chunk reader, which reads the input of a script in chunks. Each chunk consists of the bytes that one call of
/// `ScriptRead::read` returns.
#[derive(Drop)]
pub struct Chunks {
    /// The buffer into which `ScriptRead::read` reads the next chunk of a script's input.
    room: Vec<u8>,
    /// The length of the last chunk. The last chunk is stored at the start of the buffer.
    count: usize,
    /// The number of times that this chunk reader has called `ScriptRead::read`.
    turns: u32,
}

impl Chunks {
    /// Allocates the buffer for chunks, without reading.
    pub fn new(alloc: Global) -> Result<Chunks, AllocError>
        ensures begun { IfOk result (λ c. c.turns ≡ 0) }
        ensures room { IfOk result AreChunks }
    {
        let room = vec![in alloc; 0u8; CHUNK]?;
        Ok(Chunks {
            room,
            count: 0,
            turns: 0,
        })
    }

    /// Reads the next chunk. Returns `false` at the end of the input.
    ///
    /// # Errors
    ///
    /// `Read`: the reader failed, or 4,294,967,295 reads were made before.
    pub fn next<R: ScriptRead>(&mut self, reader: &mut R) -> Result<bool, ScriptFault>
        requires room { AreChunks self.old }
        ensures chunk { IfOk result (λ more.
            ReadsChunk more (R.left reader.old) (R.left reader.new) (chunk_of self.new)) }
        ensures took { OnOk result (Appends (R.taken reader.old) (R.taken reader.new) (chunk_of self.new)) }
        ensures ended { IfOk result (λ more. more ≡ false → R.ended reader.new) }
        ensures room { OnOk result (AreChunks self.new) }
        ensures counted { OnOk result (R.failures reader.new ≡ R.failures reader.old) }
        ensures turns { OnOk result (self.new.turns ≡ self.old.turns + 1) }
        ensures reads { (reads failures : ℕ)
            → HasRead self.old.turns reads (R.reads reader.old) failures (R.failures reader.old)
            → OnOk result (HasRead self.new.turns reads (R.reads reader.new) failures (R.failures reader.new)) }
        ensures fault { IfErr result (λ fault. fault ≡ Read) }
        ensures kept { OnErr result (Keeps (R.left reader.old) (R.left reader.new)) }
        ensures none_taken { OnErr result (Keeps (R.taken reader.old) (R.taken reader.new)) }
        ensures stops { (reads failures : ℕ)
            → HasRead self.old.turns reads (R.reads reader.old) failures (R.failures reader.old)
            → OnErr result (StopsReading reads (R.reads reader.new) failures (R.failures reader.new)) }
    {
        if self.turns == MAX_READS {
            return Err(ScriptFault::Read);
        }
        self.turns += 1;
        match reader.read(self.room.as_mut_slice()) {
            Ok(count) => {
                self.count = count;
                Ok(count > 0)
            }
            Err(_) => Err(ScriptFault::Read),
        }
    }

    /// Returns the chunk that was read last.
    pub fn bytes(&self) -> &[u8]
        requires room { AreChunks self.now }
        ensures { result.now ≡ chunk_of self.now }
    {
        &self.room[..self.count]
    }
}
