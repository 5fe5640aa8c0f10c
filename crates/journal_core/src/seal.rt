//! Seals a block of a journal with a checksum.
ghost use Rattle.std.specs.Prelude.{◌≡◌, IfErr, IfOk, OnErr, OnOk, [], None};
ghost use Rattle.script_engine.specs.Faults.{IsFaultOf};
ghost use Rattle.journal_core.specs.Sealing.{EndsSeal, HasSealed, HasSealedPart, IsSealing, Seals, SealsBlock, wrong_after};

use crate::sums::{added, hasher_of, hex_of, is_sum, sum_line};
use line_reader::{LineTask, run_task};
use script_engine::{ScriptFault, ScriptRead, ScriptWrite};
use sha2::{Digest, Sha256};
use std::alloc::{AllocError, Global};
use std::mem;

/// Returns the number of lines before the first wrong line, or `None` if no line is wrong. The argument `before` is the
/// result for the first `count` lines. The argument `wrong` says whether the next line is wrong.
fn wrong_after(before: Option<u64>, wrong: bool, count: u64) -> Option<u64>
    ensures { result ≡ wrong_after before wrong count }
{
    match before {
        Some(lines) => Some(lines),
        None if wrong => Some(count),
        None => None,
    }
}

/// A task that reads the lines of a block, and computes the line that ends the block.
#[derive(Drop)]
pub struct Seal {
    alloc: Global,
    hasher: Sha256,
    seq: Vec<u8>,
    count: u64,
    wrong: Option<u64>,
}

impl Seal {
    /// Creates the task for a block that follows the block with the hash `chain`.
    pub fn new(alloc: Global, chain: &[u8], seq: &[u8]) -> Result<Seal, AllocError>
        ensures { IfOk result (λ seal. IsSealing chain.now seq.now [] seal) }
    {
        let hasher = hasher_of(chain, seq);
        let seq = Vec::from_slice(alloc, seq)?;
        Ok(Seal {
            alloc,
            hasher,
            seq,
            count: 0,
            wrong: None,
        })
    }

    /// Returns the number of lines before the first wrong line, or `None` if no wrong line was read. A line is wrong if
    /// it ends a block, or if it is the last line and has no line end.
    pub fn wrong(&self) -> Option<u64>
        ensures { result ≡ self.now.wrong }
    {
        self.wrong
    }
}

impl LineTask for Seal {
    ghost steps = { Seals };

    ghost ends = { EndsSeal };

    fn line(&mut self, line: &[u8], _text: &mut Vec<u8>) -> Result<(), AllocError> {
        self.wrong = wrong_after(self.wrong, is_sum(line), self.count);
        self.hasher.update(line);
        self.hasher.update(b"\n".as_slice());
        self.count = added(self.count, 1)?;
        Ok(())
    }

    fn end(&mut self, rest: &[u8], text: &mut Vec<u8>) -> Result<(), AllocError> {
        self.wrong = wrong_after(self.wrong, !rest.is_empty(), self.count);
        if self.wrong.is_some() {
            return Ok(());
        }
        let hasher = mem::replace(&mut self.hasher, Sha256::new());
        let hash = hex_of(self.alloc, hasher)?;
        let line = sum_line(self.alloc, self.count, hash.as_bytes(), self.seq.as_slice())?;
        text.extend_from_slice(line.as_slice())?;
        text.push(b'\n')?;
        Ok(())
    }
}

/// Reads the lines of a block up to the end of the input, and writes the line that ends the block. The argument `chain`
/// is the hash of the previous block. A line is wrong if it ends a block, or if it is the last line and has no line
/// end. Returns `None` if no line is wrong. If a line is wrong, the call writes nothing, and returns the number of
/// lines before the first wrong line.
///
/// # Errors
///
/// Returns `Read` if the reader failed in this call, or after 4,294,967,295 reads of at most 65,536 bytes. Returns
/// `Write` if the writer failed in this call. Returns `Memory` if an allocation failed, or if a count is at its
/// maximum.
pub fn seal_block<R: ScriptRead, W: ScriptWrite>(
    alloc: Global,
    chain: &[u8],
    seq: &[u8],
    reader: &mut R,
    writer: &mut W,
) -> Result<Option<u64>, ScriptFault>
    ensures seals { IfOk result (λ wrong. SealsBlock chain.now seq.now (R.left reader.old) (W.held writer.old)
        (W.held writer.new) wrong) }
    ensures took { IfOk result (λ wrong. HasSealed chain.now seq.now (R.taken reader.old) (R.taken reader.new)
        (W.held writer.old) (W.held writer.new) wrong) }
    ensures stopped { OnErr result (HasSealedPart chain.now seq.now (R.ended reader.new) (R.taken reader.old)
        (R.taken reader.new) (W.held writer.old) (W.held writer.new)) }
    ensures ended { OnOk result (R.ended reader.new) }
    ensures counted { OnOk result ((R.failures reader.new ≡ R.failures reader.old)
        × (W.failures writer.new ≡ W.failures writer.old)) }
    ensures fault { IfErr result (λ fault. IsFaultOf fault (R.reads reader.old) (R.reads reader.new)
        (R.failures reader.old) (R.failures reader.new) (W.failures writer.old) (W.failures writer.new)) }
{
    let mut task = Seal::new(alloc, chain, seq)?;
    match run_task(alloc, &mut task, reader, writer) {
        Ok(()) => {}
        Err(fault) => return Err(fault),
    }
    Ok(task.wrong())
}
