//! Certificates.
ghost use Rattle.std.specs.Prelude.{◌≡◌, IfOk, OnOk};
ghost use Rattle.teco_certificate.specs.Reads.{Reads};
ghost use Rattle.teco_certificate.specs.Text.{certificate_text};
ghost use Rattle.teco_certificate.specs.WellFormed.{HasText};

use crate::fault::CertificateFault;
use crate::lines::{letters, name_of, push_argument, push_line, version};
use crate::order::numbers_rise;
use crate::printing::push_loops;
use crate::reading::certificate_in;
use std::alloc::{AllocError, Global};
use std::marker::Model;
use teco_base::Reg;
use teco_model::{ArgumentRange, Needs};
use teco_poly::Poly;
use teco_verifier::LoopLine;

/// What the verifier has found of a macro.
#[derive(Drop)]
pub struct Certificate {
    /// The register that is called.
    pub entry: Reg,
    /// The argument that it takes, if any.
    pub argument: Option<ArgumentRange>,
    /// The files that must be open.
    pub needs: Needs,
    /// The most commands that a run takes.
    pub commands: Poly,
    /// The most that is held.
    pub size: Poly,
    /// What was chosen for the iterations, by their numbers.
    pub loops: Vec<LoopLine>,
}

impl Model for Certificate {
    ghost use Rattle.teco_verifier.specs.certificate.Fields as fields;

    ghost Value = { fields.Fields };

    ghost view = { λ c. record {
      entry = c.entry;
      argument = c.argument;
      needs = c.needs;
      commands = c.commands;
      size = c.size;
      loops = c.loops.items;
    } };
}

impl Certificate {
    /// Its text.
    pub fn print(&self, alloc: Global) -> Result<Vec<u8>, AllocError>
        ensures text { IfOk result (λ text. text.items ≡ certificate_text self.now) }
        // so the text is read again, if the loops are in order
        ensures parts { OnOk result (HasText self.now) }
    {
        let mut text = Vec::new(alloc);
        push_line(&mut text, b"TECO-CERT ", version(self.argument).as_bytes())?;
        push_line(&mut text, b"entry ", &[name_of(self.entry)])?;
        push_argument(&mut text, alloc, self.argument)?;
        push_line(&mut text, b"needs ", letters(self.needs).as_bytes())?;
        let commands = self.commands.print(alloc)?;
        push_line(&mut text, b"commands ", commands.as_bytes())?;
        let size = self.size.print(alloc)?;
        push_line(&mut text, b"size ", size.as_bytes())?;
        push_loops(&mut text, alloc, &self.loops)?;
        push_line(&mut text, b"end", b"")?;
        Ok(text)
    }

    /// The certificate whose text this is; none where no certificate has it. Each has one text. It
    /// takes time by the length of the text, and memory for what is read and for its text once
    /// more.
    pub fn read(alloc: Global, bytes: &[u8]) -> Result<Certificate, CertificateFault>
        ensures { Reads bytes.now result }
    {
        let certificate = certificate_in(alloc, bytes)?;
        let printed = certificate.print(alloc)?;
        if printed.as_slice() == bytes && numbers_rise(&certificate.loops) {
            Ok(certificate)
        } else {
            Err(CertificateFault::NotACertificate)
        }
    }
}
