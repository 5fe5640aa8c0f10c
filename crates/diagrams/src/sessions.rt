//! Draws logs as bar charts of their sessions.

ghost use Rattle.std.specs.Prelude.{◌≡◌, ◌+◌, ◌-◌, ◌*◌, ◌^◌, ◌++◌, ◌∷◌, [], OnOk, max, min, string_bytes, string_len, vec_len};
ghost use Rattle.std.specs.List.{flat_map};
ghost use Rattle.diagrams.specs.declared.form.Form.TheVariants.{Svg, Text};
ghost use Rattle.diagrams.specs.Ink.{Draws, chart, log, moment, most_from, signs_of_log, signs_of_session};

use crate::form::Form;
use crate::lines::{begin, end_line, put_count, put_heading, share};
use crate::markup::Markup;
use crate::sheet::{mark, put_number, put_text};
use crate::svg::{Extent, width_of};
use output_parser::{Column, Entry, Log, Table};
use std::alloc::AllocError;

/// The height of a session's row, and of the row of the log's id.
const ROW: u64 = 24;

/// Draws a log. In an SVG picture, the call draws the log at a given height.
pub fn draw_log(out: &mut Vec<u8>, form: Form, height: u64, log: &Log) -> Result<(), AllocError>
    ensures { OnOk result (Draws out.old.items out.new.items (signs_of_log form (string_bytes log.now.id) log.now.entries.items)) }
{
    begin(out, form, height, Markup::Title)?;
    put_log(out, form, log.id.as_str())?;
    end_line(out, form)?;
    draw_sessions(out, form, height, log.entries.as_slice())?;
    end_log(out, form)
}

/// Draws the sessions of a log.
fn draw_sessions(
    out: &mut Vec<u8>,
    form: Form,
    height: u64,
    entries: &[Entry],
) -> Result<(), AllocError>
    ensures { OnOk result (Draws out.old.items out.new.items
        (flat_map (signs_of_session form (most_from 1 entries.now)) entries.now)) }
{
    let most = most_read(entries);
    for i in 0..entries.len() {
        draw_session(out, form, height_of(height, i), most, &entries[i])?;
    }
    Ok(())
}

/// Returns the largest number of documents that a session of the log read, at least 1.
fn most_read(entries: &[Entry]) -> u64
    ensures { result ≡ most_from 1 entries.now }
{
    let mut most = 1;
    for i in 0..entries.len() {
        most = most.max(entries[i].read);
    }
    most
}

/// Draws a session of a log.
fn draw_session(
    out: &mut Vec<u8>,
    form: Form,
    height: u64,
    most: u64,
    entry: &Entry,
) -> Result<(), AllocError>
    ensures { OnOk result (Draws out.old.items out.new.items (signs_of_session form most entry.now)) }
{
    begin_session(out, form, height)?;
    put_moment(out, form, entry.begun.as_str())?;
    put_chart(out, form, entry.written, entry.read, most)?;
    put_count(out, Column::Read, entry.read)?;
    put_count(out, Column::Written, entry.written)?;
    put_count(out, Column::Failed, entry.failed)?;
    mark(out, Markup::Indent)?;
    put_heading(out, form, Table::Session, entry.session.as_str())?;
    end_line(out, form)
}

// ---- positions

/// Returns the size of the drawing of a log.
pub fn extent_of(log: &Log) -> Extent
    ensures width { result.width ≡ max (min (string_len log.now.id) (2 ^ 32) * 9) 1240 }
    ensures height { result.height ≡ min (vec_len log.now.entries) (2 ^ 32) * ROW + (2 * ROW + 6) }
{
    Extent {
        width: width_of(log.id.as_str()).max(1240),
        height: height_of(ROW, log.entries.len()).saturating_add(6),
    }
}

/// Returns the height at which a session is drawn, given the session's index and the height at which the log is drawn.
fn height_of(height: u64, place: usize) -> u64
    ensures { result ≡ min (height + (min place (2 ^ 32) * ROW + ROW)) (2 ^ 64 - 1) }
{
    height.saturating_add((place as u64).min(1 << 32) * ROW + ROW)
}

/// Draws the markup before a session of a log.
fn begin_session(out: &mut Vec<u8>, form: Form, height: u64) -> Result<(), AllocError>
    ensures { OnOk result (Draws out.old.items out.new.items []) }
{
    match form {
        Form::Text => mark(out, Markup::Indent),
        Form::Svg => begin(out, form, height, Markup::Line),
    }
}

/// Draws the markup at the end of a log.
fn end_log(out: &mut Vec<u8>, form: Form) -> Result<(), AllocError>
    ensures { OnOk result (Draws out.old.items out.new.items []) }
{
    match form {
        Form::Text => mark(out, Markup::LineEnd),
        Form::Svg => Ok(()),
    }
}

// ---- contents

/// Appends the id of a replication log to a picture.
fn put_log(out: &mut Vec<u8>, form: Form, id: &str) -> Result<(), AllocError>
    ensures { OnOk result (Draws out.old.items out.new.items (log form id.now ∷ [])) }
{
    out.extend_from_slice(b"log ")?;
    put_text(out, form, id)
}

/// Appends the start time of a session to a picture.
fn put_moment(out: &mut Vec<u8>, form: Form, begun: &str) -> Result<(), AllocError>
    ensures { OnOk result (Draws out.old.items out.new.items (moment form begun.now ∷ [])) }
{
    put_text(out, form, begun)
}

/// Draws a bar for the numbers of documents that a session read and wrote. The full length of the bar represents the
/// largest number of documents that a session of the log read.
fn put_chart(
    out: &mut Vec<u8>,
    form: Form,
    written: u64,
    read: u64,
    most: u64,
) -> Result<(), AllocError>
    ensures { OnOk result (Draws out.old.items out.new.items (chart form written read most ∷ [])) }
{
    match form {
        Form::Text => put_text_chart(out, written, read, most),
        Form::Svg => put_svg_chart(out, written, read, most),
    }
}

/// Draws a session's bar of 40 characters, for a text picture.
fn put_text_chart(out: &mut Vec<u8>, written: u64, read: u64, most: u64) -> Result<(), AllocError>
    ensures { OnOk result (Draws out.old.items out.new.items (chart Text written read most ∷ [])) }
{
    let filled = (share(written, most) / 10) as usize;
    let reached = filled.max((share(read, most) / 10) as usize);
    let full: &[u8] = b"########################################";
    let failed: &[u8] = b"........................................";
    let empty: &[u8] = b"                                        ";
    out.extend_from_slice(b"  [")?;
    out.extend_from_slice(&full[..filled])?;
    out.extend_from_slice(&failed[..reached - filled])?;
    out.extend_from_slice(&empty[reached..])?;
    out.extend_from_slice(b"]")
}

/// Draws a session's bar with a width of 400, for an SVG picture.
fn put_svg_chart(out: &mut Vec<u8>, written: u64, read: u64, most: u64) -> Result<(), AllocError>
    ensures { OnOk result (Draws out.old.items out.new.items (chart Svg written read most ∷ [])) }
{
    out.extend_from_slice(b"</text>\n<rect x=\"250\" y=\"8\" height=\"10\" class=\"d\" width=\"")?;
    put_number(out, share(read, most))?;
    out.extend_from_slice(b"\"/><rect x=\"250\" y=\"8\" height=\"10\" class=\"w\" width=\"")?;
    put_number(out, share(written, most))?;
    out.extend_from_slice(b"\"/>\n<text x=\"662\" y=\"18\">")
}
