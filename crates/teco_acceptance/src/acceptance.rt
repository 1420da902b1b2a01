//! Macros that are accepted, however that was found.
ghost use Rattle.std.specs.Prelude.{◌≡◌, IfOk};
ghost use Rattle.std.specs.Result.{IfErr};
ghost use Rattle.teco_acceptance.specs.Accepted.{IsAmong, IsOf, IsProved, certificate_of, edition_of, promise_of};
ghost use Rattle.teco_acceptance.specs.Refused.{IsRefusal, IsRefusedBy};
ghost use Rattle.teco_console.specs.declared.method.Edition.TheVariants.{First, Second};
ghost use Rattle.teco_console.specs.declared.method.Method.TheVariants.{Best};

use crate::claims::verified_by_claims;
use crate::unaccepted::Unaccepted;
use std::alloc::{AllocError, Global};
use teco_base::Reg;
use teco_claimed::Claimed;
use teco_console::{Edition, Means, Method};
use teco_library::Library;
use teco_paths::search::ClaimSearch;
use teco_promise::Promise;
use teco_verify::{Refusal, Verified, verify};

/// A macro that is accepted.
#[derive(Drop)]
pub enum Accepted<'l> {
    /// By a table of what is known before each element.
    Table(Verified<'l>),
    /// By claims at its loops.
    Claims(Claimed<'l>),
}

impl<'l> Accepted<'l> {
    /// What always holds: its table is closed, or its claims hang together.
    pub fn is_proved(&self)
        ensures { IsProved self.now }
    {
        match self {
            Accepted::Table(verified) => verified.is_certified(),
            Accepted::Claims(claimed) => claimed.is_checked(),
        }
    }

    /// What it promises.
    pub fn promise(&self) -> Promise<'l>
        ensures { result ≡ promise_of self.now }
    {
        match self {
            Accepted::Table(verified) => verified.promise(),
            Accepted::Claims(claimed) => claimed.promise(),
        }
    }

    /// The text of its certificate.
    pub fn certificate(&self, alloc: Global) -> Result<Vec<u8>, AllocError>
        ensures { IfOk result (λ text. text.items ≡ certificate_of self.now) }
    {
        match self {
            Accepted::Table(verified) => verified.certificate(alloc),
            Accepted::Claims(claimed) => claimed.certificate(alloc),
        }
    }

    /// The edition of the rules that accepts it.
    pub fn edition(&self) -> Edition
        ensures { result ≡ edition_of self.now }
    {
        match self {
            Accepted::Table(_) => Edition::First,
            Accepted::Claims(_) => Edition::Second,
        }
    }

    /// The register that is called.
    pub fn entry(&self) -> Reg
        ensures { result ≡ (promise_of self.now).entry }
    {
        match self {
            Accepted::Table(verified) => verified.entry(),
            Accepted::Claims(claimed) => claimed.entry(),
        }
    }

    /// The library.
    pub fn library(&self) -> &'l Library
        ensures { result.now.texts ≡ (promise_of self.now).library }
    {
        match self {
            Accepted::Table(verified) => verified.library(),
            Accepted::Claims(claimed) => claimed.library(),
        }
    }
}

// A macro of a library, by a table.
fn by_table<'l>(alloc: Global, library: &'l Library, entry: Reg) -> Result<Accepted<'l>, Refusal>
    ensures is { IfOk result (IsOf library.now entry) }
    ensures edition { IfOk result (λ accepted. edition_of accepted ≡ First) }
    ensures refused { IfErr result (IsRefusal library.now entry) }
{
    match verify(alloc, library, entry) {
        Ok(verified) => Ok(Accepted::Table(verified)),
        Err(refusal) => Err(refusal),
    }
}

// Verified by claims.
fn by_claims<'l, S: ClaimSearch>(
    means: Means,
    library: &'l Library,
    entry: Reg,
) -> Result<Accepted<'l>, Unaccepted>
    ensures is { IfOk result (IsOf library.now entry) }
    ensures edition { IfOk result (λ accepted. edition_of accepted ≡ Second) }
{
    let claimed = verified_by_claims::<S>(means, library, entry)?;
    Ok(Accepted::Claims(claimed))
}

// Verified by claims, or by a table where there are none. Where both editions refuse it, the second
// says why. Want of memory is no refusal.
fn by_either<'l, S: ClaimSearch>(
    means: Means,
    library: &'l Library,
    entry: Reg,
) -> Result<Accepted<'l>, Unaccepted>
    ensures is { IfOk result (IsOf library.now entry) }
    ensures refused { IfErr result (λ unaccepted. IsRefusedBy Best library.now entry unaccepted.refusal) }
{
    match by_claims::<S>(means, library, entry) {
        Ok(accepted) => Ok(accepted),
        Err(unaccepted) => match by_table(means.alloc, library, entry) {
            Ok(accepted) => Ok(accepted),
            Err(Refusal::No { .. }) => Err(unaccepted),
            Err(Refusal::Memory) => Err(Unaccepted::from(Refusal::Memory)),
        },
    }
}

/// A macro of a library, if it is accepted by a method.
pub fn verified_by<'l, S: ClaimSearch>(
    means: Means,
    library: &'l Library,
    entry: Reg,
    method: Method,
) -> Result<Accepted<'l>, Unaccepted>
    ensures is { IfOk result (IsOf library.now entry) }
    ensures among { IfOk result (λ accepted. IsAmong method (edition_of accepted)) }
    ensures refused { IfErr result (λ unaccepted. IsRefusedBy method library.now entry unaccepted.refusal) }
{
    match method {
        Method::Only(Edition::First) => Ok(by_table(means.alloc, library, entry)?),
        Method::Only(Edition::Second) => by_claims::<S>(means, library, entry),
        Method::Best => by_either::<S>(means, library, entry),
    }
}
