//! Macros that were verified.
ghost use Rattle.std.specs.Prelude.{◌≡◌, IfOk, OnOk, slice_index_or, None, option_map};
ghost use Rattle.std.specs.Option.{option_copied};
ghost use Rattle.teco_certificate.specs.Text.{certificate_text};
ghost use Rattle.teco_certificate.specs.WellFormed.{HasText};
ghost use Rattle.teco_verify.specs.Certified.{IsCertified, bounds_of};
ghost use Rattle.teco_verify.specs.Promised.{promise_of};

use std::alloc::{AllocError, Global};
use std::marker::Model;
use teco_base::{REGISTERS, Reg};
use teco_certificate::Certificate;
use teco_law_runs::laws::expansions_are_linked;
use teco_law_tables::laws::{
    runs_are_framed, runs_are_verified, runs_change_as_told, runs_leave_below,
};
use teco_library::Library;
use teco_model::Needs;
use teco_poly::Poly;
use teco_promise::{Promise, Statement};

/// A macro of a library that was verified: what its certificate says is so. It is seen as the
/// library's texts, and what that certificate says.
#[derive(Drop)]
pub struct Verified<'l> {
    pub(crate) library: &'l Library,
    pub(crate) certificate: Certificate,
}

impl<'l> Model for Verified<'l> {
    ghost use Rattle.teco_verifier.specs.certificate.Fields.{Finding};
    ghost use Rattle.teco_verify.specs.Certified.{IsCertified};

    ghost Value = { Finding };

    ghost view = { λ v. record { library = v.library.now.texts; fields = v.certificate } };

    ghost invariant = { λ v. IsCertified v.library.now.texts v.certificate };
}

impl<'l> Verified<'l> {
    /// What always holds: the table that the certificate tells of is closed, and its numbers are
    /// that table's.
    pub fn is_certified(&self)
        ensures { IsCertified self.now.library self.now.fields }
    {
        let _ = &self.certificate;
    }

    /// What it promises: each run ends in time, and without a code.
    pub fn promise(&self) -> Promise<'l>
        ensures { result ≡ promise_of self.now }
    {
        expansions_are_linked();
        runs_are_verified();
        runs_are_framed();
        runs_leave_below();
        runs_change_as_told();
        let certificate = &self.certificate;
        Promise::of(Statement {
            library: self.library,
            entry: certificate.entry,
            argument: certificate.argument,
            needs: certificate.needs,
            commands: certificate.commands,
            size: certificate.size,
            grows: None,
            types: None,
        })
    }

    /// The register that is called.
    pub fn entry(&self) -> Reg
        ensures { result ≡ self.now.fields.entry }
    {
        self.certificate.entry
    }

    /// The least and the greatest argument that a run may be given; `None` where it takes none.
    pub fn argument(&self) -> Option<(i32, i32)>
        ensures { result ≡ option_map bounds_of self.now.fields.argument }
    {
        let range = self.certificate.argument?;
        Some((range.low() as i32, range.high() as i32))
    }

    /// The library.
    pub fn library(&self) -> &'l Library
        ensures { result.now.texts ≡ self.now.library }
    {
        self.library
    }

    /// The text that the library gives to a register; `None` where it leaves it.
    pub fn text(&self, register: Reg) -> Option<&[u8]>
        ensures { option_copied result ≡ slice_index_or self.now.library register None }
    {
        self.library.text(register)
    }

    /// The most commands that a run takes.
    pub fn commands(&self) -> Poly
        ensures { result ≡ self.now.fields.commands }
    {
        self.certificate.commands
    }

    /// The most that is held, and the length of the longest text.
    pub fn size(&self) -> Poly
        ensures { result ≡ self.now.fields.size }
    {
        self.certificate.size
    }

    /// The files that must be open.
    pub fn needs(&self) -> Needs
        ensures { result ≡ self.now.fields.needs }
    {
        self.certificate.needs
    }

    /// The text of its certificate.
    ///
    /// # Errors
    ///
    /// `AllocError` where memory is refused.
    pub fn certificate(&self, alloc: Global) -> Result<Vec<u8>, AllocError>
        ensures text { IfOk result (λ text. text.items ≡ certificate_text self.now.fields) }
        ensures parts { OnOk result (HasText self.now.fields) }
    {
        self.certificate.print(alloc)
    }
}
