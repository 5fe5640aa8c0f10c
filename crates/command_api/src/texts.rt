//! Prints values that several commands print (docs/PROFILE.md, "Answers").
ghost use Rattle.std.specs.Prelude.{◌≡◌, ◌<◌, ◌≤◌, ◌++◌, ◌∷◌, length, IfOk, OnOk, decimal, string_bytes};
ghost use Rattle.rev_core.specs.Text.{rev_text};
ghost use Rattle.repl_log.specs.Text.{id_digits};
ghost use Rattle.command_api.specs.Telling.{hushed};
ghost use Rattle.command_api.specs.Texts.{last_line, line_of_revs, quoted, revs_line, texts_of_revs};

use doc_json::push_text;
use itoa::Buffer;
use rev_core::Rev;
use std::alloc::{AllocError, Global};

/// Appends a number. If the number has four digits (the usual case) and the buffer has enough capacity, the digits are
/// copied in one step.
#[inline(never)]
pub fn push_number(text: &mut Vec<u8>, number: u64) -> Result<(), AllocError>
    ensures { OnOk result (text.new.items ≡ text.old.items ++ decimal number) }
{
    if number < 1_000 || number >= 10_000 || text.capacity() - text.len() < 4 {
        return push_any_number(text, number);
    }
    text.extend_from_slice(&four_digits(number as u32))
}

/// Formats a number of four digits.
#[inline(always)]
fn four_digits(number: u32) -> [u8; 4]
    requires { (1000 ≤ number) × (number < 10000) }
    ensures { result ≡ decimal number }
{
    let front = number / 100;
    let back = number % 100;
    [
        b'0' + (front / 10) as u8,
        b'0' + (front % 10) as u8,
        b'0' + (back / 10) as u8,
        b'0' + (back % 10) as u8,
    ]
}

/// Appends the decimal form of a number that may have any number of digits.
#[inline(never)]
fn push_any_number(text: &mut Vec<u8>, number: u64) -> Result<(), AllocError>
    ensures { OnOk result (text.new.items ≡ text.old.items ++ decimal number) }
{
    let mut digits = Buffer::new();
    text.extend_from_slice(digits.format(number).as_bytes())
}

/// Appends a count, with a fast path for counts of one digit, which are usual.
#[inline(always)]
pub fn push_count(text: &mut Vec<u8>, count: usize) -> Result<(), AllocError>
    ensures { OnOk result (text.new.items ≡ text.old.items ++ decimal count) }
{
    if count < 10 {
        text.push(b'0' + count as u8)?;
        return Ok(());
    }
    push_number(text, count as u64)
}

/// Appends a revision. A fast path copies the revision in one step. The fast path needs a signature of 32 bytes, a
/// generation of one or three digits, and enough capacity in the buffer.
#[inline(never)]
pub fn push_rev(text: &mut Vec<u8>, rev: &Rev) -> Result<(), AllocError>
    ensures { OnOk result (text.new.items ≡ text.old.items ++ rev_text rev.now) }
{
    let generation = rev.generation();
    let sig = rev.sig_bytes();
    if sig.len() == 32 && text.capacity() - text.len() >= 36 {
        if generation < 10 {
            return text.extend_from_slice(&short_text(generation, sig));
        }
        if generation >= 100 && generation < 1_000 {
            return text.extend_from_slice(&three_digit_text(generation, sig));
        }
    }
    push_parts(text, generation, sig)
}

/// Formats a revision with a generation of one digit and a signature of 32 bytes.
#[inline(always)]
fn short_text(generation: u32, sig: &[u8]) -> [u8; 34]
    requires generation { generation < 10 }
    requires sig { length sig.now ≡ 32 }
    ensures { result ≡ decimal generation ++ 45 ∷ sig.now }
{
    let bytes = &sig[..32];
    let mut text = [b'-'; 34];
    text[0] = b'0' + generation as u8;
    text[2..].copy_from_slice(bytes);
    text
}

/// Formats a revision with a generation of three digits and a signature of 32 bytes.
#[inline(always)]
fn three_digit_text(generation: u32, sig: &[u8]) -> [u8; 36]
    requires generation { (100 ≤ generation) × (generation < 1000) }
    requires sig { length sig.now ≡ 32 }
    ensures { result ≡ decimal generation ++ 45 ∷ sig.now }
{
    let bytes = &sig[..32];
    let front = generation / 10;
    let mut text = [b'-'; 36];
    text[0] = b'0' + (front / 10) as u8;
    text[1] = b'0' + (front % 10) as u8;
    text[2] = b'0' + (generation % 10) as u8;
    text[4..].copy_from_slice(bytes);
    text
}

/// Appends the generation, the hyphen and the signature of a revision one by one.
#[inline(never)]
fn push_parts(text: &mut Vec<u8>, generation: u32, sig: &[u8]) -> Result<(), AllocError>
    ensures { OnOk result (text.new.items ≡ text.old.items ++ (decimal generation ++ 45 ∷ sig.now)) }
{
    push_generation(text, generation)?;
    text.push(b'-')?;
    text.extend_from_slice(sig)
}

/// Appends a generation, with a fast path for generations of one digit, which are usual.
#[inline(always)]
fn push_generation(text: &mut Vec<u8>, generation: u32) -> Result<(), AllocError>
    ensures { OnOk result (text.new.items ≡ text.old.items ++ decimal generation) }
{
    if generation < 10 {
        text.push(b'0' + generation as u8)?;
        return Ok(());
    }
    push_number(text, u64::from(generation))
}

/// Appends revisions, separated by commas.
pub fn push_revs(text: &mut Vec<u8>, revs: &[Rev]) -> Result<(), AllocError>
    ensures { OnOk result (text.new.items ≡ text.old.items ++ texts_of_revs revs.now) }
{
    for i in 0..revs.len() {
        if i > 0 {
            text.push(b',')?;
        }
        push_rev(text, &revs[i])?;
    }
    Ok(())
}

/// Appends a string as a JSON string.
#[inline(always)]
pub fn push_json(text: &mut Vec<u8>, string: &str) -> Result<(), AllocError>
    ensures { OnOk result (text.new.items ≡ text.old.items ++ quoted string.now) }
{
    push_text(text, string)
}

/// Appends a line with a keyword, a document id and revisions. If there are no revisions, the call appends nothing.
pub fn push_revs_line(
    text: &mut Vec<u8>,
    word: &[u8],
    id: &str,
    revs: &[Rev],
) -> Result<(), AllocError>
    ensures { OnOk result (text.new.items ≡ text.old.items ++ revs_line word.now id.now revs.now) }
{
    if revs.is_empty() {
        return Ok(());
    }
    push_line_of_revs(text, word, id, revs)
}

/// Appends a line with a keyword, a document id and revisions.
fn push_line_of_revs(
    text: &mut Vec<u8>,
    word: &[u8],
    id: &str,
    revs: &[Rev],
) -> Result<(), AllocError>
    ensures { OnOk result (text.new.items ≡ text.old.items ++ line_of_revs word.now id.now revs.now) }
{
    text.extend_from_slice(word)?;
    text.push(b' ')?;
    push_json(text, id)?;
    text.push(b' ')?;
    push_revs(text, revs)?;
    text.push(b'\n')?;
    Ok(())
}

/// Appends the output line with the last sequence of a feed. The commands `changes` and `docs` print this line.
pub fn push_last(text: &mut Vec<u8>, last: u64) -> Result<(), AllocError>
    ensures { OnOk result (text.new.items ≡ text.old.items ++ last_line last) }
{
    text.extend_from_slice(b"last ")?;
    push_number(text, last)?;
    text.push(b'\n')?;
    Ok(())
}

/// Clears the output buffer if `quiet` is true.
pub fn hush(text: &mut Vec<u8>, quiet: bool)
    ensures { text.new.items ≡ hushed quiet text.old.items }
{
    if quiet {
        text.clear();
    }
}

/// Formats an id as 32 lowercase hexadecimal digits.
#[tactic(auto, unfolding(repl_log::specs::Text::id_digits))]
pub fn id_text(alloc: Global, id: u128) -> Result<String, AllocError>
    ensures { IfOk result (λ text. string_bytes text ≡ id_digits id) }
{
    hex::encode(alloc, id.to_be_bytes())
}
