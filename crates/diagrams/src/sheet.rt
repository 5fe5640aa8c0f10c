//! The drawing operations for each kind of item in a picture.
ghost use Rattle.std.specs.Prelude.{◌≡◌, ◌++◌, ◌∷◌, ◌<◌, [], OnOk, string_bytes, decimal, encode_utf8_all, chars, length, take};
ghost use Rattle.std.specs.Char.{digit_char};
ghost use Rattle.rev_core.specs.Text.{rev_text};
ghost use Rattle.diagrams.specs.declared.form.Form.TheVariants.{Svg, Text};
ghost use Rattle.diagrams.specs.Ink.{Draws, edit, leaf, markup_text, short_text, shown_text, title};
ghost use Rattle.diagrams.specs.Shown.{IsEscaped, entity_of, seen_char, shown, shown_char};
ghost use Rattle.visible_text.specs.Visible.{IsSeen, escape_of, is_hidden};

use crate::form::Form;
use crate::labels::{label_text, node_label, shape_text};
use crate::markup::Markup;
use itoa::Buffer;
use rev_core::Rev;
use std::alloc::AllocError;
use visible_text::{is_hidden, push_escape};

/// Draws markup.
pub fn mark(out: &mut Vec<u8>, markup: Markup) -> Result<(), AllocError>
    ensures text { OnOk result (out.new.items ≡ out.old.items ++ markup_text markup) }
    ensures draws { OnOk result (Draws out.old.items out.new.items []) }
{
    out.extend_from_slice(markup.text().as_bytes())
}

/// Draws a number.
pub fn number(out: &mut Vec<u8>, number: u64) -> Result<(), AllocError>
    ensures text { OnOk result (out.new.items ≡ out.old.items ++ decimal number) }
    ensures draws { OnOk result (Draws out.old.items out.new.items []) }
{
    put_number(out, number)
}

/// Appends a number.
pub fn put_number(out: &mut Vec<u8>, number: u64) -> Result<(), AllocError>
    ensures { OnOk result (out.new.items ≡ out.old.items ++ decimal number) }
{
    let mut digits = Buffer::new();
    out.extend_from_slice(digits.format(number).as_bytes())
}

/// Draws blanks.
pub fn blanks(out: &mut Vec<u8>, count: usize) -> Result<(), AllocError>
    ensures draws { OnOk result (Draws out.old.items out.new.items []) }
{
    for turn in 0..count {
        mark(out, Markup::Space)?;
    }
    Ok(())
}

/// Appends a text of the input, with markup characters and hidden characters (`is_hidden`) escaped.
pub fn put_text(out: &mut Vec<u8>, form: Form, text: &str) -> Result<(), AllocError>
    ensures text { OnOk result (out.new.items ≡ out.old.items ++ shown_text form text.now) }
    ensures seen { IsSeen (shown form (chars text.now)) }
    ensures escaped { IsEscaped (shown Svg (chars text.now)) }
{
    let mut shown = String::new(*out.allocator());
    push_shown(&mut shown, form, text)?;
    out.extend_from_slice(shown.as_bytes())
}

/// Draws a document id.
pub fn title(out: &mut Vec<u8>, form: Form, id: &str) -> Result<(), AllocError>
    ensures { OnOk result (Draws out.old.items out.new.items (title form id.now ∷ [])) }
{
    put_text(out, form, id)
}

/// Draws a leaf as text.
pub fn leaf_row(out: &mut Vec<u8>, rev: &Rev, wins: bool, live: bool) -> Result<(), AllocError>
    ensures { OnOk result (Draws out.old.items out.new.items (leaf Text rev.now wins live ∷ [])) }
{
    push_rev(out, rev.generation(), short_sig(rev))?;
    out.extend_from_slice(label_text(wins, live).as_bytes())
}

/// Appends the SVG markup of a leaf. The caller has already appended the markup for the leaf's coordinates.
pub fn leaf_node(out: &mut Vec<u8>, rev: &Rev, wins: bool, live: bool) -> Result<(), AllocError>
    ensures { OnOk result (Draws out.old.items out.new.items (leaf Svg rev.now wins live ∷ [])) }
{
    push_rev(out, rev.generation(), rev.sig_bytes())?;
    out.extend_from_slice(shape_text(wins, live).as_bytes())?;
    push_rev(out, rev.generation(), short_sig(rev))?;
    out.extend_from_slice(node_label(wins, live).as_bytes())
}

/// Draws the command that resolves a leaf's conflict.
pub fn edit_line(out: &mut Vec<u8>, db: &str, id: &str, rev: &Rev) -> Result<(), AllocError>
    ensures { OnOk result (Draws out.old.items out.new.items (edit db.now id.now rev.now ∷ [])) }
{
    out.extend_from_slice(b"  to keep the winner alone: {\"do\":\"edit\",\"db\":\"")?;
    put_text(out, Form::Text, db)?;
    out.extend_from_slice(b"\",\"id\":")?;
    put_text(out, Form::Text, id)?;
    out.extend_from_slice(b",\"parent\":\"")?;
    push_rev(out, rev.generation(), rev.sig_bytes())?;
    out.extend_from_slice(b"\",\"deleted\":true}\n")
}

/// Draws the full id of a revision.
pub fn whole_rev(out: &mut Vec<u8>, rev: &Rev) -> Result<(), AllocError>
    ensures text { OnOk result (out.new.items ≡ out.old.items ++ rev_text rev.now) }
    ensures draws { OnOk result (Draws out.old.items out.new.items []) }
{
    push_rev(out, rev.generation(), rev.sig_bytes())
}

/// The number of characters of a short signature.
const SHORT: usize = 6;

/// Appends a revision's short id (the generation and at most six characters of the signature) to a picture.
pub fn short_rev(out: &mut Vec<u8>, rev: &Rev) -> Result<(), AllocError>
    ensures text { OnOk result (out.new.items ≡ out.old.items ++ short_text rev.now) }
    ensures draws { OnOk result (Draws out.old.items out.new.items []) }
{
    push_short(out, rev)
}

/// Appends the short id of a revision.
pub fn push_short(out: &mut Vec<u8>, rev: &Rev) -> Result<(), AllocError>
    ensures { OnOk result (out.new.items ≡ out.old.items ++ short_text rev.now) }
{
    push_rev(out, rev.generation(), short_sig(rev))
}

/// Returns the first characters of a revision's signature.
fn short_sig(rev: &Rev) -> &[u8]
    ensures { result.now ≡ take 6 rev.now.sig }
{
    let sig = rev.sig_bytes();
    &sig[..sig.len().min(SHORT)]
}

/// Returns the number of characters of a revision's short id.
pub fn short_len(rev: &Rev) -> usize
    ensures { result ≡ length (short_text rev.now) }
{
    digits(u64::from(rev.generation())) + 1 + short_sig(rev).len()
}

/// Returns the number of digits of a number.
pub fn digits(mut number: u64) -> usize
    ensures text { result ≡ length (decimal number) }
    ensures few { result < 21 }
{
    let mut count = 1;
    for step in 0..19u8 {
        if number >= 10 {
            number /= 10;
            count += 1;
        }
    }
    count
}

/// Appends a generation, a hyphen, and a full or short signature.
fn push_rev(out: &mut Vec<u8>, generation: u32, sig: &[u8]) -> Result<(), AllocError>
    ensures { OnOk result (out.new.items ≡ out.old.items ++ (decimal generation ++ 45 ∷ sig.now)) }
{
    let mut digits = Buffer::new();
    out.extend_from_slice(digits.format(generation).as_bytes())?;
    out.push(b'-')?;
    out.extend_from_slice(sig)
}

/// Appends a text with markup characters and hidden characters escaped.
fn push_shown(out: &mut String, form: Form, text: &str) -> Result<(), AllocError>
    ensures { OnOk result
        (string_bytes out.new ≡ string_bytes out.old ++ encode_utf8_all (shown form (chars text.now))) }
{
    for c in text.chars() {
        push_char(out, form, c)?;
    }
    Ok(())
}

/// Appends a character, escaped if necessary.
fn push_char(out: &mut String, form: Form, c: char) -> Result<(), AllocError>
    ensures { OnOk result (string_bytes out.new ≡ string_bytes out.old ++ encode_utf8_all (shown_char form c)) }
{
    if is_hidden(c) {
        return push_escape(out, c);
    }
    match form {
        Form::Text => out.push(c),
        Form::Svg => push_entity(out, c),
    }
}

/// Appends a character, or the XML entity of a character that XML reserves.
fn push_entity(out: &mut String, c: char) -> Result<(), AllocError>
    ensures { OnOk result (string_bytes out.new ≡ string_bytes out.old ++ encode_utf8_all (entity_of c)) }
{
    match c {
        '&' => out.push_str("&amp;"),
        '<' => out.push_str("&lt;"),
        '>' => out.push_str("&gt;"),
        '"' => out.push_str("&quot;"),
        c => out.push(c),
    }
}
