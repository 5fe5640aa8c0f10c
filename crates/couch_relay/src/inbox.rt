//! Reads the responses on standard input.
ghost use Rattle.std.specs.Prelude.{ℕ, ◌≡◌, ◌≤◌, ◌<◌, [], length, position, take, drop, true, false, IfOk, OnOk, OnErr, MatchOption};
ghost use Rattle.std.specs.List.{position_or_len};
ghost use Rattle.script_engine.specs.Lines.{is_line_end, has_line_end};
ghost use Rattle.script_engine.specs.Device.{counted};
ghost use Rattle.couch_relay.specs.Faults.{ReadCounts};
ghost use Rattle.couch_relay.specs.Frames.{HeadView, IsHead, IsNumber, word_in, rest_in, side_in};
ghost use Rattle.couch_relay.specs.Inbox.{head_view, pending, IsInbox, Took, Filled, HasLine, ReadsHead};

use relay_core::Side;
use script_engine::{ScriptFault, ScriptRead};
use std::alloc::{AllocError, Global};
use std::str;

/// The input bytes that the relay has read, with the index of the first unused byte.
#[derive(Drop)]
pub(crate) struct Inbox {
    buffer: Vec<u8>,
    held: Vec<u8>,
    at: usize,
}

/// The parsed first line of a response.
#[derive(Drop)]
pub(crate) struct Head {
    pub(crate) status: u16,
    pub(crate) size: usize,
    pub(crate) who: Option<Side>,
    pub(crate) date: String,
}

/// Returns the server with the given name, `source` or `target`.
fn side_of(name: &str) -> Option<Side>
    ensures { result ≡ side_in name.now }
{
    if name == "source" {
        return Some(Side::Source);
    }
    if name == "target" {
        return Some(Side::Target);
    }
    None
}

/// Returns the part of a text before the text's first space, and the part after the first space.
fn split_word(text: &str) -> (&str, &str)
    ensures word { result.0.now ≡ word_in text.now }
    ensures rest { result.1.now ≡ rest_in text.now }
{
    match text.split_once(' ') {
        Some((word, rest)) => (word, rest),
        None => (text, ""),
    }
}

fn status_of(text: &str) -> Option<u16>
    ensures { MatchOption result ((n : ℕ) → ¬ IsNumber 16 text.now n) (λ n. IsNumber 16 text.now n) }
{
    match text.parse::<u16>() {
        Ok(status) => Some(status),
        Err(_) => None,
    }
}

fn size_of(text: &str) -> Option<usize>
    ensures { MatchOption result ((n : ℕ) → ¬ IsNumber 64 text.now n) (λ n. IsNumber 64 text.now n) }
{
    match text.parse::<usize>() {
        Ok(size) => Some(size),
        Err(_) => None,
    }
}

/// Parses a response's first line, `STATUS BYTES WHO DATE`.
fn head_of(alloc: Global, line: &[u8]) -> Result<Option<Head>, AllocError>
    ensures { IfOk result (λ o. MatchOption o ((head : HeadView) → ¬ IsHead line.now head) (λ h. IsHead line.now (head_view h))) }
{
    let Ok(text) = str::from_utf8(line) else {
        return Ok(None);
    };
    let (status, rest) = split_word(text);
    let (size, rest) = split_word(rest);
    let (who, date) = split_word(rest);
    let Some(status) = status_of(status) else {
        return Ok(None);
    };
    let Some(size) = size_of(size) else {
        return Ok(None);
    };
    let date = String::from_str(alloc, date.trim())?;
    Ok(Some(Head {
        status,
        size,
        who: side_of(who),
        date,
    }))
}

fn line_end(bytes: &[u8]) -> Option<usize>
    ensures { result ≡ position is_line_end bytes.now }
{
    bytes.iter().position(|b| *b == 10)
}

/// Returns the length of the first line without its line feed. If the bytes have no line feed, all bytes are the first
/// line.
fn line_len(bytes: &[u8]) -> usize
    ensures { result ≡ position_or_len is_line_end bytes.now }
{
    match line_end(bytes) {
        Some(index) => index,
        None => bytes.len(),
    }
}

/// The maximum number of bytes that one read requests.
const CHUNK: usize = 65536;

impl Inbox {
    /// Creates an inbox without input bytes.
    pub(crate) fn new(alloc: Global) -> Result<Inbox, AllocError>
        ensures inbox { IfOk result IsInbox }
        ensures pending { IfOk result (λ inbox. pending inbox ≡ []) }
    {
        let buffer = vec![in alloc; 0u8; CHUNK]?;
        Ok(Inbox {
            buffer,
            held: Vec::new(alloc),
            at: 0,
        })
    }

    /// Reads more bytes from the reader, and returns false at the end of the input.
    fn fill<R: ScriptRead>(&mut self, reader: &mut R) -> Result<bool, ScriptFault>
        requires { IsInbox self.old }
        ensures inbox { OnOk result (IsInbox self.new) }
        ensures filled { OnOk result (Filled (R.taken reader.old) (R.taken reader.new) (pending self.old) (pending self.new)) }
        ensures end { IfOk result (λ more. more ≡ false → R.ended reader.new × (pending self.new ≡ pending self.old)) }
        ensures err { OnErr result (Took (R.taken reader.old) (R.taken reader.new)) }
        ensures counts { ReadCounts result (R.reads reader.new) (R.failures reader.old) (R.failures reader.new) }
        ensures asked { R.reads reader.new ≡ counted (R.reads reader.old) 1 }
    {
        let Ok(count) = reader.read(self.buffer.as_mut_slice()) else {
            return Err(ScriptFault::Read);
        };
        self.held
            .extend_from_slice(&self.buffer.as_slice()[..count])?;
        Ok(count > 0)
    }

    /// Returns the length of the next input line, or `None` at the end of the input.
    fn line<R: ScriptRead>(&mut self, reader: &mut R) -> Result<Option<usize>, ScriptFault>
        requires { IsInbox self.old }
        ensures inbox { OnOk result (IsInbox self.new) }
        ensures filled { OnOk result (Filled (R.taken reader.old) (R.taken reader.new) (pending self.old) (pending self.new)) }
        ensures found { IfOk result (λ o. MatchOption o (R.ended reader.new × (has_line_end (pending self.new) ≡ false))
            (λ size. HasLine (pending self.new) size)) }
        ensures err { OnErr result (Took (R.taken reader.old) (R.taken reader.new)) }
        ensures counts { ReadCounts result (R.reads reader.new) (R.failures reader.old) (R.failures reader.new) }
    {
        for _turn in 0..u64::MAX {
            let size = line_len(&self.held.as_slice()[self.at..]);
            if size < self.held.len() - self.at {
                return Ok(Some(size));
            }
            if !self.fill(reader)? {
                return Ok(None);
            }
        }
        Err(ScriptFault::Read)
    }

    /// Removes the first line of the next response from the input, and returns the parsed line. Returns `None` if the
    /// input ends or the next line is not the first line of a response.
    pub(crate) fn head<R: ScriptRead>(
        &mut self,
        alloc: Global,
        reader: &mut R,
    ) -> Result<Option<Head>, ScriptFault>
        requires { IsInbox self.old }
        ensures inbox { OnOk result (IsInbox self.new) }
        ensures head { IfOk result (λ o.
            ReadsHead (R.taken reader.old) (R.taken reader.new) (R.ended reader.new) (pending self.old) (pending self.new) o) }
        ensures err { OnErr result (Took (R.taken reader.old) (R.taken reader.new)) }
        ensures counts { ReadCounts result (R.reads reader.new) (R.failures reader.old) (R.failures reader.new) }
    {
        let Some(size) = self.line(reader)? else {
            return Ok(None);
        };
        let end = self.at + size;
        let head = head_of(alloc, &self.held.as_slice()[self.at..end])?;
        self.at = end + 1;
        Ok(head)
    }

    /// Reads until `size` unused input bytes are available, and returns false if the input ends earlier.
    pub(crate) fn has<R: ScriptRead>(
        &mut self,
        reader: &mut R,
        size: usize,
    ) -> Result<bool, ScriptFault>
        requires { IsInbox self.old }
        ensures inbox { OnOk result (IsInbox self.new) }
        ensures filled { OnOk result (Filled (R.taken reader.old) (R.taken reader.new) (pending self.old) (pending self.new)) }
        ensures held { IfOk result (λ found. found ≡ true → size ≤ length (pending self.new)) }
        ensures end { IfOk result (λ found. found ≡ false → R.ended reader.new × (length (pending self.new) < size)) }
        ensures err { OnErr result (Took (R.taken reader.old) (R.taken reader.new)) }
        ensures counts { ReadCounts result (R.reads reader.new) (R.failures reader.old) (R.failures reader.new) }
    {
        for _turn in 0..u64::MAX {
            if self.held.len() - self.at >= size {
                return Ok(true);
            }
            if !self.fill(reader)? {
                return Ok(false);
            }
        }
        Err(ScriptFault::Read)
    }

    /// Returns the next `size` input bytes without removing them.
    pub(crate) fn body(&self, size: usize) -> &[u8]
        requires inbox { IsInbox self.now }
        requires held { size ≤ length (pending self.now) }
        ensures { result.now ≡ take size (pending self.now) }
    {
        &self.held.as_slice()[self.at..self.at + size]
    }

    /// Removes the next `size` input bytes.
    pub(crate) fn take(&mut self, size: usize)
        requires inbox { IsInbox self.old }
        requires held { size ≤ length (pending self.old) }
        ensures inbox { IsInbox self.new }
        ensures pending { pending self.new ≡ drop size (pending self.old) }
    {
        self.at += size;
        if self.at == self.held.len() {
            self.at = 0;
            self.held.clear();
        }
    }
}
