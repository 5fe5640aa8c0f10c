//! Draws the output of a script.
ghost use Rattle.std.specs.Prelude.{◌≡◌, ℕ, List, ◌++◌, [], Some, None, IfOk, IfErr, OnOk, OnErr, option_map, string_bytes};
ghost use Rattle.std.specs.Io.KnownBytes.{Appends, IsAtEnd, Keeps};
ghost use Rattle.script_engine.specs.Device.{FailsOnce};
ghost use Rattle.script_engine.specs.Faults.{IsFaultOf};
ghost use Rattle.script_engine.specs.declared.fault.ScriptFault.TheVariants.{Write};
ghost use Rattle.diagrams.specs.Ink.{Draws, signs_of, signs_of_found, signs_of_log, signs_of_row};
ghost use Rattle.diagrams.specs.Tallies.{with_line};
ghost use Rattle.diagrams.specs.Drawing.{IsDrawn, IsPicture, PicturedBy, Pictures, Takes, sketch_of};

use crate::document::Document;
use crate::form::Form;
use crate::markup::Markup;
use crate::reading::{Whole, next};
use crate::sheet::{mark, number};
use crate::svg::Extent;
use crate::tally::{Outcome, Tally};
use crate::{lines, sessions, svg, text};
use output_parser::{Found, Log, Row, read_line};
use script_engine::{NoRest, ScriptFault, ScriptRead, ScriptWrite, Serve, run_lines, write_all};
use std::alloc::{AllocError, Global};

/// The state of drawing.
#[derive(Drop)]
struct Drawer<'a> {
    alloc: Global,
    form: Form,
    /// The name of the database whose documents are drawn, if the caller gave the name.
    db: Option<&'a str>,
    /// The document whose `leaf` lines are being read.
    begun: Option<Document>,
    /// The size of the picture.
    extent: Extent,
    /// The counts of lines.
    tally: Tally,
}

impl Serve for Drawer<'_> {
    ghost answers = { λ old line told new. Pictures (sketch_of old.form old.db old.begun old.tally) line told
        (sketch_of new.form new.db new.begun new.tally) };

    type Rest = NoRest;

    ghost left = { λ _ _. [] };

    fn serve(&mut self, line: &[u8], answer: &mut Vec<u8>) -> Result<Option<NoRest>, &'static str> {
        match self.take_in(line, answer) {
            Ok(()) => Ok(None),
            Err(_) => Err("Memory"),
        }
    }

    fn more(&self, _rest: &mut NoRest, _piece: &mut Vec<u8>) -> Result<bool, AllocError> {
        Ok(false)
    }

    fn observe(&mut self, _number: u64, _line: &[u8], _refused: Option<&'static str>) {}
}

impl Drawer<'_> {
    /// Reads and counts a line of a script's output. If the line completes an item (`Whole`), the call draws the item.
    /// If an allocation fails, the call drops the document whose lines are being read.
    fn take_in(&mut self, line: &[u8], answer: &mut Vec<u8>) -> Result<(), AllocError>
        requires { answer.old.items ≡ [] }
        ensures ok { OnOk result (Takes (sketch_of self.old.form self.old.db self.old.begun self.old.tally) line.now
            (sketch_of self.new.form self.new.db self.new.begun self.new.tally) answer.new.items) }
        ensures err { OnErr result ((self.new.begun ≡ None) × (self.new.tally ≡ with_line self.old.tally)) }
        ensures form { self.new.form ≡ self.old.form }
        ensures db { self.new.db ≡ self.old.db }
    {
        let begun = self.begun.take();
        let tally = self.tally;
        self.tally = tally.with_line();
        let told = read_line(self.alloc, line)?;
        let tally = tally.with_told(&told);
        let (begun, whole) = next(self.alloc, begun, told)?;
        match whole {
            Some(whole) => {
                self.draw_whole(whole, answer)?;
                self.tally = tally;
                Ok(())
            }
            None => {
                self.begun = begun;
                self.tally = tally;
                Ok(())
            }
        }
    }

    /// Draws a complete item.
    fn draw_whole(&mut self, whole: Whole, answer: &mut Vec<u8>) -> Result<(), AllocError>
        requires { answer.old.items ≡ [] }
        ensures draws { OnOk result (IsDrawn self.old.form (option_map (λ s. s.now) self.old.db) (Some whole) answer.new.items) }
        ensures begun { self.new.begun ≡ self.old.begun }
        ensures tally { self.new.tally ≡ self.old.tally }
        ensures form { self.new.form ≡ self.old.form }
        ensures db { self.new.db ≡ self.old.db }
    {
        match whole {
            Whole::Tree(document) => self.draw(document, answer),
            Whole::Found(found) => self.draw_found(&found, answer),
            Whole::Row(row) => self.draw_row(&row, answer),
            Whole::Log(log) => self.draw_log(&log, answer),
        }
    }

    /// Draws a line of `compare` about a document.
    fn draw_found(&mut self, found: &Found, answer: &mut Vec<u8>) -> Result<(), AllocError>
        ensures draws { OnOk result (Draws answer.old.items answer.new.items (signs_of_found self.old.form
            found.now.finding (string_bytes found.now.id) found.now.revs.items)) }
        ensures begun { self.new.begun ≡ self.old.begun }
        ensures tally { self.new.tally ≡ self.old.tally }
        ensures form { self.new.form ≡ self.old.form }
        ensures db { self.new.db ≡ self.old.db }
    {
        lines::draw_found(answer, self.form, self.extent.height, found)?;
        self.extent = self.extent.with_below(lines::extent_of_found(found));
        Ok(())
    }

    /// Draws a line of numbers: the totals of `compare`, the numbers of `info`, or the numbers of a session.
    fn draw_row(&mut self, row: &Row, answer: &mut Vec<u8>) -> Result<(), AllocError>
        ensures draws { OnOk result (Draws answer.old.items answer.new.items (signs_of_row self.old.form
            row.now.table (string_bytes row.now.name) row.now.numbers.items)) }
        ensures begun { self.new.begun ≡ self.old.begun }
        ensures tally { self.new.tally ≡ self.old.tally }
        ensures form { self.new.form ≡ self.old.form }
        ensures db { self.new.db ≡ self.old.db }
    {
        lines::draw_numbers(answer, self.form, self.extent.height, row)?;
        self.extent = self.extent.with_below(lines::extent_of_row(row));
        Ok(())
    }

    /// Draws a log.
    fn draw_log(&mut self, log: &Log, answer: &mut Vec<u8>) -> Result<(), AllocError>
        ensures draws { OnOk result (Draws answer.old.items answer.new.items (signs_of_log self.old.form
            (string_bytes log.now.id) log.now.entries.items)) }
        ensures begun { self.new.begun ≡ self.old.begun }
        ensures tally { self.new.tally ≡ self.old.tally }
        ensures form { self.new.form ≡ self.old.form }
        ensures db { self.new.db ≡ self.old.db }
    {
        sessions::draw_log(answer, self.form, self.extent.height, log)?;
        self.extent = self.extent.with_below(sessions::extent_of(log));
        Ok(())
    }

    /// Draws a document.
    fn draw(&mut self, mut document: Document, answer: &mut Vec<u8>) -> Result<(), AllocError>
        requires { answer.old.items ≡ [] }
        ensures draws { OnOk result (IsPicture self.old.form (option_map (λ s. s.now) self.old.db) document answer.new.items) }
        ensures begun { self.new.begun ≡ self.old.begun }
        ensures tally { self.new.tally ≡ self.old.tally }
        ensures form { self.new.form ≡ self.old.form }
        ensures db { self.new.db ≡ self.old.db }
    {
        document.sort()?;
        self.draw_sorted(&document, answer)
    }

    /// Draws a document with sorted leaves.
    fn draw_sorted(&mut self, document: &Document, answer: &mut Vec<u8>) -> Result<(), AllocError>
        ensures draws { OnOk result (Draws answer.old.items answer.new.items (signs_of self.old.form
            (option_map (λ s. s.now) self.old.db) (string_bytes document.now.id) document.now.leaves.items)) }
        ensures begun { self.new.begun ≡ self.old.begun }
        ensures tally { self.new.tally ≡ self.old.tally }
        ensures form { self.new.form ≡ self.old.form }
        ensures db { self.new.db ≡ self.old.db }
    {
        match self.form {
            Form::Text => text::draw_document(self.alloc, answer, self.db, document),
            Form::Svg => {
                let extent = svg::draw_document(self.alloc, answer, self.extent.height, document)?;
                self.extent = self.extent.with_below(extent);
                Ok(())
            }
        }
    }
}

/// Reads the output of a script, and draws the output as text or as one SVG picture (docs/PROFILE.md, "Pictures"). A
/// picture of a script's output shows the documents that `show` and `conflicts` print, and the lines that `compare`
/// prints. A picture of a script's output also shows the numbers that `info` and `replicate` print, and the replication
/// logs that `log` prints. If the caller names the database, a text picture includes the commands that resolve
/// conflicts.
///
/// Returns the counts of the input's lines, and whether memory was sufficient for every line.
///
/// # Errors
///
/// - `Read`: the reader failed during the call of `draw_answers`, or the call made 4,294,967,295 reads.
/// - `Write`: the writer failed during the call of `draw_answers`.
/// - `Memory`: an allocation failed while no line was being drawn, for example for the end of the picture.
///
/// If the call returns an error, the writer got a prefix of the picture. After `Read` or `Memory`, each drawing in this
/// prefix is complete. The contract also permits the error `Cut`. After `Cut`, the prefix ends inside a drawing.
pub fn draw_answers<R: ScriptRead, W: ScriptWrite>(
    alloc: Global,
    form: Form,
    db: Option<&str>,
    reader: &mut R,
    writer: &mut W,
) -> Result<Outcome, ScriptFault>
    ensures pictured { PicturedBy result form (option_map (λ s. s.now) db.entry)
        (R.left reader.old) (W.held writer.old) (W.held writer.new) }
    ensures end { OnOk result (IsAtEnd (R.left reader.new)) }
    // The clause `took` says that the written text is a picture of the bytes that the reads returned. After an error,
    // the text is a prefix of this picture. If the call succeeds, the reads returned the complete input.
    ensures took { (input : List ℕ) × Appends (R.taken reader.old) (R.taken reader.new) input
        × PicturedBy result form (option_map (λ s. s.now) db.entry) (Some input) (W.held writer.old) (W.held writer.new) }
    ensures ended { OnOk result (R.ended reader.new) }
    ensures counted { OnOk result ((R.failures reader.new ≡ R.failures reader.old)
        × (W.failures writer.new ≡ W.failures writer.old)) }
    ensures counts { IfErr result (λ fault. IsFaultOf fault (R.reads reader.old) (R.reads reader.new)
        (R.failures reader.old) (R.failures reader.new) (W.failures writer.old) (W.failures writer.new)) }
{
    let mut drawer = Drawer {
        alloc,
        form,
        db,
        begun: None,
        extent: Extent {
            width: 0,
            height: 0,
        },
        tally: Tally {
            lines: 0,
            unknown: 0,
            first: 0,
        },
    };
    match write_all(writer, head_of(form).as_bytes()) {
        Ok(()) => {}
        Err(fault) => return Err(fault),
    }
    let clean = match run_lines(alloc, &mut drawer, reader, writer) {
        Ok(clean) => clean,
        Err(stopped) => return Err(stopped),
    };
    let tail = tail_of(alloc, form, drawer.extent)?;
    match end(writer, tail.as_slice()) {
        Ok(()) => Ok(Outcome {
            clean,
            tally: drawer.tally,
        }),
        Err(fault) => Err(fault),
    }
}

/// Writes the end of a picture, and flushes the output.
fn end<W: ScriptWrite>(writer: &mut W, tail: &[u8]) -> Result<(), ScriptFault>
    ensures ok { OnOk result (Appends (W.held writer.old) (W.held writer.new) tail.now
        × (W.failures writer.new ≡ W.failures writer.old)) }
    ensures err { OnErr result ((front : List ℕ) × (back : List ℕ) × (tail.now ≡ front ++ back)
        × Appends (W.held writer.old) (W.held writer.new) front
        × FailsOnce (W.failures writer.old) (W.failures writer.new)) }
    ensures fault { IfErr result (λ fault. fault ≡ Write) }
{
    match write_all(writer, tail) {
        Ok(()) => pass_on(writer),
        Err(fault) => Err(fault),
    }
}

/// Flushes the output.
fn pass_on<W: ScriptWrite>(writer: &mut W) -> Result<(), ScriptFault>
    ensures kept { Keeps (W.held writer.old) (W.held writer.new) }
    ensures counted { OnOk result (W.failures writer.new ≡ W.failures writer.old) }
    ensures err { IfErr result (λ fault. (fault ≡ Write)
        × FailsOnce (W.failures writer.old) (W.failures writer.new)) }
{
    match writer.flush() {
        Ok(()) => Ok(()),
        Err(_) => Err(ScriptFault::Write),
    }
}

/// Returns the markup at the start of a picture.
fn head_of(form: Form) -> &'static str
    ensures { Draws [] result.now [] }
{
    match form {
        Form::Text => "",
        Form::Svg => Markup::Head.text(),
    }
}

/// Returns the markup at the end of a picture.
fn tail_of(alloc: Global, form: Form, extent: Extent) -> Result<Vec<u8>, AllocError>
    ensures { IfOk result (λ tail. Draws [] tail.items []) }
{
    let mut tail = Vec::new(alloc);
    if form == Form::Text {
        return Ok(tail);
    }
    draw_size(&mut tail, extent)?;
    mark(&mut tail, Markup::Tail)?;
    Ok(tail)
}

/// Appends the width and the height of an SVG picture to the picture's markup.
fn draw_size(out: &mut Vec<u8>, extent: Extent) -> Result<(), AllocError>
    ensures { OnOk result (Draws out.old.items out.new.items []) }
{
    mark(out, Markup::TailWidth)?;
    number(out, extent.width.saturating_add(120))?;
    mark(out, Markup::TailHeight)?;
    number(out, extent.height.saturating_add(20))
}
