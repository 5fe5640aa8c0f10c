//! Reports each complete document in the form that the caller requested: unchanged, wrapped in an envelope, or
//! unwrapped from an envelope.
ghost use Rattle.std.specs.Prelude.{◌≡◌, OnOk, Some};
ghost use Rattle.response_parser.specs.Stored.{state_of};
ghost use Rattle.response_parser.specs.Values.{document_found, found_as};
ghost use Rattle.doc_envelope.specs.Stored.{made_of};

use crate::place::{Found, Refusal, Wanted};
use crate::reading::Reading;
use std::alloc::AllocError;

impl Reading {
    /// Reports a complete document in the form that the caller requested: unchanged, wrapped in an envelope, or
    /// unwrapped from an envelope.
    pub(crate) fn find_document(&mut self) -> Result<(), AllocError>
        ensures { OnOk result (state_of self.new ≡ document_found (state_of self.old)) }
    {
        match self.wanted {
            Wanted::Enveloped => self.find_put(),
            Wanted::Unfolded => self.find_taken(),
            _ => {
                self.found = Found::Document;
                Ok(())
            }
        }
    }

    /// Wraps the complete document in an envelope, and reports the envelope. Rejects the input with `NotWhole` if the
    /// document cannot be wrapped in an envelope.
    fn find_put(&mut self) -> Result<(), AllocError>
        requires { self.old.wanted ≡ Wanted.Enveloped }
        ensures { OnOk result (state_of self.new ≡ document_found (state_of self.old)) }
    {
        if self.envelope.put(self.text.as_slice())? {
            return self.find_made();
        }
        self.refuse(Refusal::NotWhole);
        Ok(())
    }

    /// Unwraps the complete envelope, and reports the document inside the envelope. Rejects the input with `NotWhole`
    /// if the envelope cannot be unwrapped.
    fn find_taken(&mut self) -> Result<(), AllocError>
        requires { self.old.wanted ≡ Wanted.Unfolded }
        ensures { OnOk result (state_of self.new ≡ document_found (state_of self.old)) }
    {
        if self.envelope.take(self.text.as_slice())? {
            return self.find_made();
        }
        self.refuse(Refusal::NotWhole);
        Ok(())
    }

    /// Reports the envelope or document that the parser has built.
    fn find_made(&mut self) -> Result<(), AllocError>
        ensures { OnOk result (state_of self.new ≡ found_as (Some (made_of self.old.envelope)) (state_of self.old)) }
    {
        self.text.clear();
        self.text.extend_from_slice(self.envelope.text())?;
        self.found = Found::Document;
        Ok(())
    }
}
