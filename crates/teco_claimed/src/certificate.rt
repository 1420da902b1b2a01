//! Certificates of the linear rules.
ghost use Rattle.std.specs.Prelude.{◌≡◌, ◌<◌, ◌++◌, IfOk, IfSome, OnOk};
ghost use Rattle.teco_base.specs.declared.TheConstants.{REGISTERS};
ghost use Rattle.teco_claimed.specs.Reads.{IsChecksum, Reads};
ghost use Rattle.teco_claimed.specs.Text.{checksum_line, linear_text};
ghost use Rattle.teco_model.specs.Macros.{IsArgumentRange};

use crate::reading::certificate_in;
use std::alloc::{AllocError, Global};
use teco_base::Reg;
use teco_certificate::CertificateFault;
use teco_certificate::lines::{letters, name_of, push_argument, push_line, version};
use teco_claims::Claims;
use teco_model::{ArgumentRange, Needs};

/// What the linear rules say of a macro.
#[derive(Drop)]
pub struct LinearCertificate {
    /// The register that is called.
    pub entry: Reg,
    /// The argument that it takes, if any.
    pub argument: Option<ArgumentRange>,
    /// The files that must be open.
    pub needs: Needs,
    /// The checksum of the texts that it runs, where it says for which it was made.
    pub checksum: Option<u32>,
    /// The most commands that a run takes, the most that is held, and what is claimed on the way.
    pub claims: Claims,
}

// Adds the line of the checksum, if there is one.
fn push_checksum(text: &mut Vec<u8>, alloc: Global, checksum: Option<u32>) -> Result<(), AllocError>
    ensures text { OnOk result (text.new.items ≡ text.old.items ++ checksum_line checksum) }
    ensures sum { OnOk result (IfSome checksum IsChecksum) }
{
    let Some(sum) = checksum else {
        return Ok(());
    };
    let line = format!(in alloc; "text {sum}\n")?;
    text.extend_from_slice(line.as_bytes())
}

impl LinearCertificate {
    /// Its text.
    pub fn write(&self, alloc: Global) -> Result<Vec<u8>, AllocError>
        ensures text { IfOk result (λ text. text.items ≡ linear_text self.now) }
        // so the text is read again, if the claims have one
        ensures entry { OnOk result (self.now.entry < REGISTERS) }
        ensures argument { OnOk result (IfSome self.now.argument IsArgumentRange) }
        ensures checksum { OnOk result (IfSome self.now.checksum IsChecksum) }
    {
        let mut text = Vec::new(alloc);
        push_line(&mut text, b"TECO-CERT ", version(self.argument).as_bytes())?;
        push_line(&mut text, b"entry ", &[name_of(self.entry)])?;
        push_argument(&mut text, alloc, self.argument)?;
        push_line(&mut text, b"rules ", b"3")?;
        push_line(&mut text, b"needs ", letters(self.needs).as_bytes())?;
        push_checksum(&mut text, alloc, self.checksum)?;
        let claims = self.claims.write(alloc)?;
        text.extend_from_slice(&claims)?;
        Ok(text)
    }

    /// The certificate whose text this is; none where no certificate has it. Each has one text. It
    /// takes time by the length of the text, and memory for what is read and for its text once
    /// more.
    pub fn read(alloc: Global, bytes: &[u8]) -> Result<LinearCertificate, CertificateFault>
        ensures { Reads bytes.now result }
    {
        let certificate = certificate_in(alloc, bytes)?;
        let written = certificate.write(alloc)?;
        if written.as_slice() == bytes {
            Ok(certificate)
        } else {
            Err(CertificateFault::NotACertificate)
        }
    }
}
