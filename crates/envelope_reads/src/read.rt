//! Reading envelopes as documents.
ghost use Rattle.std.specs.Prelude.{◌≡◌, ◌⊎◌, false, Some, Ok, Err, IfOk, IfErr};
ghost use Rattle.envelope_reads.specs.Spared.{looks_into, IsSpared};
ghost use Rattle.envelope_reads.specs.EnvelopeReads.{envelope_read, read_if_any};
ghost use Rattle.doc_json.specs.declared.fault.DocFault.TheVariants as faults;
ghost use Rattle.json_values.specs.LineView.{line_view};

use doc_envelope::Envelope;
use doc_json::{Doc, DocFault, read_line_doc};
use json_values::{LinePart, ReadFault, ValueReader};
use std::alloc::Global;

/// Wraps a document, and reads the envelope as `couch_replicate` reads the document of a `load` line. Returns `None` if
/// the document cannot be wrapped, or the JSON reader rejects the envelope.
///
/// # Errors
///
/// The call returns the errors of `read_line_doc` for the envelope, except `Attachments`, `SpecialMember` and
/// `Fraction`, which never occur. The call returns `Memory` if an allocation failed.
pub fn read_envelope(
    alloc: Global,
    envelope: &mut Envelope,
    reader: &mut ValueReader,
    document: &[u8],
) -> Result<Option<Doc>, DocFault>
    ensures ok { IfOk result (λ read. envelope_read document.now ≡ Ok read) }
    ensures err { IfErr result (λ why. (envelope_read document.now ≡ Err why) ⊎ (why ≡ faults.Memory)) }
    ensures spared { IfErr result (λ why. looks_into why ≡ false) }
{
    if !envelope.put(document)? {
        return Ok(None);
    }
    let line = match reader.read_line(alloc, envelope.text()) {
        Ok(line) => line,
        Err(ReadFault::NotJson) => return Ok(None),
        Err(ReadFault::Memory) => return Err(DocFault::Memory),
    };
    read_spared(alloc, &line.part())
}

/// Reads an envelope as a document.
fn read_spared(alloc: Global, part: &LinePart<'_, '_>) -> Result<Option<Doc>, DocFault>
    requires { IsSpared (line_view part.now) }
    ensures ok { IfOk result (λ read. read_if_any (Some (line_view part.now)) ≡ Ok read) }
    ensures err { IfErr result (λ why. (read_if_any (Some (line_view part.now)) ≡ Err why) ⊎ (why ≡ faults.Memory)) }
    ensures spared { IfErr result (λ why. looks_into why ≡ false) }
{
    match read_line_doc(alloc, part) {
        Ok(doc) => Ok(Some(doc)),
        Err(why) => Err(why),
    }
}
