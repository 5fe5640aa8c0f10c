//! Confirms the blocks of a journal by their checksums.
ghost use Rattle.std.specs.Prelude.{◌≡◌, IfOk, OnOk, length, option_map, string_bytes, true, ◌&&◌, nat_eq};
ghost use Rattle.line_reader.specs.Lines.{joined};
ghost use Rattle.journal_core.specs.Places.{Place, IsAt, TookAs, end_in, ended, held_more, is_confirmed, next, seq_of, start};

use crate::sums::{added, hash_of, is_same, is_sum, seq_in, sum_head, sum_line};
use std::alloc::{AllocError, Global};
use std::mem;

/// The result of reading a line of a journal: the line belongs to the current block, confirms the current block, or is
/// damaged.
#[derive(Drop)]
pub enum Took {
    /// The line belongs to the current block of the journal.
    Held,
    /// The line ends a block of the journal with a right checksum, which confirms the block. The variant `Closed` has
    /// the bytes of the block's lines, without the line that ends the block.
    Closed(Vec<u8>),
    /// The line, or an earlier line, ends a block with a wrong checksum.
    Damaged,
}

/// The state of reading a journal, which has the confirmed part and the lines of the current block.
#[derive(Drop)]
pub struct Blocks {
    alloc: Global,
    chain: Vec<u8>,
    seq: Vec<u8>,
    body: Vec<u8>,
    count: u64,
    bytes: u64,
    lines: u64,
    whole: bool,
}

impl Blocks {
    /// Returns the state at the start of a journal.
    pub fn new(alloc: Global) -> Result<Blocks, AllocError>
        ensures { IfOk result (λ blocks. IsAt blocks start) }
    {
        let chain = Vec::from_slice(alloc, b"start".as_slice())?;
        let seq = Vec::from_slice(alloc, b"0".as_slice())?;
        Ok(Blocks {
            alloc,
            chain,
            seq,
            body: Vec::new(alloc),
            count: 0,
            bytes: 0,
            lines: 0,
            whole: true,
        })
    }

    /// Returns the hash of the last confirmed block, or `start` if no block is confirmed.
    pub fn chain(&self) -> &[u8]
        ensures { (place : Place) → IsAt self.now place → result.now ≡ place.chain }
    {
        self.chain.as_slice()
    }

    /// Returns the sequence of the last confirmed block, or `0` if no block is confirmed.
    pub fn seq(&self) -> &[u8]
        ensures { (place : Place) → IsAt self.now place → result.now ≡ place.seq }
    {
        self.seq.as_slice()
    }

    /// Returns the number of confirmed bytes of the journal.
    pub fn bytes(&self) -> u64
        ensures { (place : Place) → IsAt self.now place → result ≡ length (joined place.confirmed) }
    {
        self.bytes
    }

    /// Returns the number of confirmed lines of the journal.
    pub fn lines(&self) -> u64
        ensures { (place : Place) → IsAt self.now place → result ≡ length place.confirmed }
    {
        self.lines
    }

    /// Whether all lines that were read are confirmed.
    pub fn is_confirmed(&self) -> bool
        ensures place { (place : Place) → IsAt self.now place → result ≡ is_confirmed place }
        ensures stored { result ≡ (self.now.whole && nat_eq (length self.now.body.items) 0) }
    {
        self.whole && self.body.is_empty()
    }

    /// Reads the next line of a journal.
    ///
    /// # Errors
    ///
    /// Returns an error if an allocation failed, or if a count is at its maximum.
    pub fn take(&mut self, line: &[u8]) -> Result<Took, AllocError>
        ensures { IfOk result (λ took. (place : Place) → IsAt self.old place
            → IsAt self.new (next place line.now) × TookAs place (next place line.now) line.now took) }
    {
        if !self.whole {
            return Ok(Took::Damaged);
        }
        if is_sum(line) {
            self.close(line)
        } else {
            self.hold(line)?;
            Ok(Took::Held)
        }
    }

    fn hold(&mut self, line: &[u8]) -> Result<(), AllocError>
        ensures { OnOk result ((place : Place) → IsAt self.old place → IsAt self.new (held_more place line.now)) }
    {
        self.body.extend_from_slice(line)?;
        self.body.push(b'\n')?;
        self.count = added(self.count, 1)?;
        Ok(())
    }

    /// Returns the sequence in a line, provided that the line ends the current block.
    fn seq_in(&self, line: &[u8]) -> Result<Vec<u8>, AllocError>
        ensures { IfOk result (λ seq. seq.items ≡ seq_of self.now.count line.now) }
    {
        let head = sum_head(self.alloc, self.count)?;
        let length = head.as_slice().len();
        let seq = Vec::from_slice(self.alloc, seq_in(length, line))?;
        Ok(seq)
    }

    /// Returns the hash of the current block if the given line correctly ends the block. Returns `None` for any other
    /// line.
    fn hash_in(&self, line: &[u8], seq: &[u8]) -> Result<Option<String>, AllocError>
        requires { seq.now ≡ seq_of self.now.count line.now }
        ensures { IfOk result (λ hash. (place : Place) → IsAt self.now place
            → option_map string_bytes hash ≡ end_in place line.now) }
    {
        let hash = hash_of(self.alloc, self.chain.as_slice(), seq, self.body.as_slice())?;
        let right = sum_line(self.alloc, self.count, hash.as_bytes(), seq)?;
        if is_same(line, right.as_slice()) {
            Ok(Some(hash))
        } else {
            Ok(None)
        }
    }

    fn close(&mut self, line: &[u8]) -> Result<Took, AllocError>
        ensures { IfOk result (λ took. (place : Place) → IsAt self.old place → place.whole ≡ true
            → IsAt self.new (ended place line.now) × TookAs place (ended place line.now) line.now took) }
    {
        let seq = self.seq_in(line)?;
        let Some(hash) = self.hash_in(line, seq.as_slice())? else {
            self.whole = false;
            return Ok(Took::Damaged);
        };
        let bytes = added(self.bytes, self.body.as_slice().len() as u64)?;
        self.bytes = added(bytes, line.len() as u64 + 1)?;
        let lines = added(self.lines, self.count)?;
        self.lines = added(lines, 1)?;
        self.count = 0;
        self.seq = seq;
        self.chain = Vec::from_slice(self.alloc, hash.as_bytes())?;
        Ok(Took::Closed(mem::replace(&mut self.body, Vec::new(self.alloc))))
    }
}
