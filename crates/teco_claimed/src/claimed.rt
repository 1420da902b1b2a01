//! Macros of which a certificate was checked.
ghost use Rattle.std.specs.Prelude.{◌≡◌, IfOk};
ghost use Rattle.teco_claimed.specs.Claimed.{IsChecked, promise_of};
ghost use Rattle.teco_claimed.specs.Text.{linear_text};

use crate::certificate::LinearCertificate;
use std::alloc::{AllocError, Global};
use std::marker::Model;
use teco_base::Reg;
use teco_claims::Claims;
use teco_law_runs::laws::expansions_are_linked;
use teco_library::Library;
use teco_model::{ArgumentRange, Needs};
use teco_paths::laws::certain_ends;
use teco_poly::Poly;
use teco_promise::{Promise, Statement};

/// A macro of a library whose certificate of the linear rules was checked: what it claims is so. It is
/// seen as the library and the certificate.
#[derive(Drop)]
pub struct Claimed<'l> {
    pub(crate) library: &'l Library,
    pub(crate) certificate: LinearCertificate,
}

impl<'l> Model for Claimed<'l> {
    ghost use Rattle.teco_claimed.specs.Claimed.{LinearFinding, IsChecked};

    ghost Value = { LinearFinding };

    ghost view = { λ c. record { library = c.library.now; certificate = c.certificate } };

    ghost invariant = { λ c. IsChecked c.library.now c.certificate };
}

impl<'l> Claimed<'l> {
    /// What always holds: the certificate has a text and the argument that is declared, the checksum that
    /// it may have is that of the texts that the macro runs, and all paths go as it claims.
    pub fn is_checked(&self)
        ensures { IsChecked self.now.library self.now.certificate }
    {
        let _ = &self.certificate;
    }

    /// What it promises: each run ends in time, and without a code.
    pub fn promise(&self) -> Promise<'l>
        ensures { result ≡ promise_of self.now }
    {
        expansions_are_linked();
        certain_ends();
        self.is_checked();
        Promise::of(Statement {
            library: self.library(),
            entry: self.entry(),
            argument: self.argument(),
            needs: self.needs(),
            commands: self.commands(),
            size: self.size(),
            grows: self.grows(),
            types: self.types(),
        })
    }

    /// The library.
    pub fn library(&self) -> &'l Library
        ensures { result.now ≡ self.now.library }
    {
        self.library
    }

    /// The register that is called.
    pub fn entry(&self) -> Reg
        ensures { result ≡ self.now.certificate.entry }
    {
        self.certificate.entry
    }

    /// The argument that a run is given; `None` where it takes none.
    pub fn argument(&self) -> Option<ArgumentRange>
        ensures { result ≡ self.now.certificate.argument }
    {
        self.certificate.argument
    }

    /// The files that must be open.
    pub fn needs(&self) -> Needs
        ensures { result ≡ self.now.certificate.needs }
    {
        self.certificate.needs
    }

    /// The most commands that a run takes.
    pub fn commands(&self) -> Poly
        ensures { result ≡ self.now.certificate.claims.commands }
    {
        self.certificate.claims.commands
    }

    /// The most that is held.
    pub fn size(&self) -> Poly
        ensures { result ≡ self.now.certificate.claims.size }
    {
        self.certificate.claims.size
    }

    /// By how much the buffer and what is unread get longer at most; `None` where none is claimed.
    pub fn grows(&self) -> Option<Poly>
        ensures { result ≡ self.now.certificate.claims.grows }
    {
        self.certificate.claims.grows
    }

    /// The most bytes that a run types; `None` where none is claimed.
    pub fn types(&self) -> Option<Poly>
        ensures { result ≡ self.now.certificate.claims.types }
    {
        self.certificate.claims.types
    }

    /// What is claimed.
    pub fn claims(&self) -> &Claims
        ensures { result.now ≡ self.now.certificate.claims }
    {
        &self.certificate.claims
    }

    /// The text of its certificate.
    pub fn certificate(&self, alloc: Global) -> Result<Vec<u8>, AllocError>
        ensures { IfOk result (λ text. text.items ≡ linear_text self.now.certificate) }
    {
        self.certificate.write(alloc)
    }
}
