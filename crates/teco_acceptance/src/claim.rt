//! Certificates in files.
ghost use Rattle.std.specs.Prelude.{◌≡◌, ◌≤◌, IfOk, IfSome, length, vec_len};
ghost use Rattle.std.specs.List.{after_first, before_first, position_or_len};
ghost use Rattle.std.specs.Result.{IfErr};
ghost use Rattle.teco_base.specs.declared.TheConstants.{LIMIT};
ghost use Rattle.teco_certificate.specs.Text.{certificate_text};
ghost use Rattle.teco_acceptance.specs.Refused.{IsDeniedBy};
ghost use Rattle.teco_acceptance.specs.Accepted.{IsOf, certificate_of};
ghost use Rattle.teco_acceptance.specs.Editions as named;
ghost use Rattle.teco_verify.specs.Certified.{TakesDeclared};
ghost use Rattle.teco_verify.specs.Refusing.{IsOfCertificate};

use crate::acceptance::{Accepted, verified_by};
use crate::claims::{accepted_by_claims, refusal_of_text};
use crate::unaccepted::Unaccepted;
use std::alloc::Global;
use teco_base::Reg;
use teco_base::bytes::LF;
use teco_console::{AnswerFault, Edition, Means, Method, Shelf, read_file};
use teco_library::Library;
use teco_paths::search::ClaimSearch;
use teco_verify::{Refusal, Verified, check_certificate};

// How long the first line of a text is.
fn line_length(text: &[u8]) -> usize
    ensures value { result ≡ position_or_len named.is_end text.now }
    ensures within { result ≤ length text.now }
{
    text.iter().take_while(|byte| **byte != LF).count()
}

/// The first line of a text, and what comes behind its end.
pub fn split_line(text: &[u8]) -> (&[u8], &[u8])
    ensures line { result.0.now ≡ before_first named.is_end text.now }
    ensures behind { result.1.now ≡ after_first named.is_end text.now }
{
    let length = line_length(text);
    if length < text.len() {
        (&text[..length], &text[length + 1..])
    } else {
        (text, &[])
    }
}

// How many lines of a certificate stand before those of its needs, at most.
const HEAD_LINES: usize = 4;

// Is this the line by which a certificate says that it is of the second edition?
fn names_second(line: &[u8]) -> bool
    ensures { result ≡ named.names_second line.now }
{
    line == b"rules 3".as_slice()
}

/// The edition of the rules that a certificate says it is of.
pub fn edition_of(text: &[u8]) -> Edition
    ensures { result ≡ named.edition_of text.now }
{
    let mut rest = text;
    for _ in 0..HEAD_LINES {
        let (line, behind) = split_line(rest);
        if names_second(line) {
            return Edition::Second;
        }
        rest = behind;
    }
    Edition::First
}

/// What a file says to be the certificate of a macro.
#[derive(Drop)]
pub struct ClaimedCertificate<'a> {
    /// The name of the file; `-` for standard input.
    pub name: &'a str,
    /// What it has.
    pub bytes: Vec<u8>,
    ghost within: { vec_len bytes ≤ LIMIT },
}

impl<'a> ClaimedCertificate<'a> {
    /// Reads the file of a name.
    pub fn read<R: Shelf>(
        rt: &R,
        alloc: Global,
        name: &'a str,
    ) -> Result<ClaimedCertificate<'a>, AnswerFault>
        ensures { IfOk result (λ claim. IfSome (R.holds rt.now name.now)
            (λ told. claim.bytes.items ≡ told)) }
    {
        let bytes = read_file(rt, alloc, name)?;
        Ok(ClaimedCertificate { name, bytes })
    }

    /// The edition by which it is checked: where each is tried, the one that it says it is of.
    pub fn edition_by(&self, method: Method) -> Edition
        ensures { result ≡ named.edition_by method self.now.bytes.items }
    {
        match method {
            Method::Only(edition) => edition,
            Method::Best => edition_of(&self.bytes),
        }
    }

    /// The macro that it is the certificate of by a table, if that is the entry.
    #[tactic(auto, using(crate::proofs::Denied::denied_by, crate::proofs::Denied::denied_other))]
    pub fn accept<'l>(
        &self,
        alloc: Global,
        library: &'l Library,
        entry: Reg,
    ) -> Result<Verified<'l>, Refusal>
        ensures library { IfOk result (λ verified. verified.library ≡ library.now.texts) }
        ensures declared { IfOk result (λ verified. TakesDeclared library.now verified.fields) }
        ensures entry { IfOk result (λ verified. verified.fields.entry ≡ entry) }
        ensures text { IfOk result (λ verified. certificate_text verified.fields
            ≡ self.now.bytes.items) }
        ensures refused { IfErr result IsOfCertificate }
        ensures denied { IfErr result (IsDeniedBy self.now.bytes.items library.now entry) }
    {
        let verified = check_certificate(alloc, library, &self.bytes)?;
        if verified.entry().index() == entry.index() {
            Ok(verified)
        } else {
            Err(Refusal::certificate())
        }
    }
}

/// Reads the certificate of a name, if one is named.
pub fn read_claim<'a, R: Shelf>(
    rt: &R,
    alloc: Global,
    name: Option<&'a str>,
) -> Result<Option<ClaimedCertificate<'a>>, AnswerFault> {
    match name {
        None => Ok(None),
        Some(name) => Ok(Some(ClaimedCertificate::read(rt, alloc, name)?)),
    }
}

// The macro that a file is the certificate of, if that is the entry.
fn accepted_by<'l>(
    alloc: Global,
    library: &'l Library,
    entry: Reg,
    method: Method,
    claim: &ClaimedCertificate<'_>,
) -> Result<Accepted<'l>, Unaccepted>
    ensures is { IfOk result (IsOf library.now entry) }
    ensures text { IfOk result (λ accepted. certificate_of accepted ≡ claim.now.bytes.items) }
{
    match claim.edition_by(method) {
        Edition::First => {
            let verified = claim.accept(alloc, library, entry)?;
            Ok(Accepted::Table(verified))
        }
        Edition::Second => match accepted_by_claims(alloc, library, entry, &claim.bytes) {
            Ok(claimed) => Ok(Accepted::Claims(claimed)),
            Err(refused) => Err(Unaccepted::from(refusal_of_text(&refused))),
        },
    }
}

/// A macro of a library, by its certificate if there is one, or verified anew.
pub fn accepted<'l, S: ClaimSearch>(
    means: Means,
    library: &'l Library,
    entry: Reg,
    method: Method,
    claim: Option<&ClaimedCertificate<'_>>,
) -> Result<Accepted<'l>, Unaccepted>
    ensures is { IfOk result (IsOf library.now entry) }
    ensures text { IfSome claim.entry (λ claim. IfOk result
        (λ accepted. certificate_of accepted ≡ claim.now.bytes.items)) }
{
    match claim {
        None => verified_by::<S>(means, library, entry, method),
        Some(claim) => accepted_by(means.alloc, library, entry, method, claim),
    }
}
