//! Checking a certificate of the linear rules.
ghost use Rattle.std.specs.Prelude.{◌≡◌, ◌↔◌, IsTrue, IfOk, OnOk, length, option_map};
ghost use Rattle.std.specs.Option.{option_copied};
ghost use Rattle.std.specs.Result.{IfErr};
ghost use Rattle.teco_claimed.specs.Claimed.{IsOfTexts, TakesDeclared};
ghost use Rattle.teco_claimed.specs.Reads.{IsTextOf, IsWellFormed};
ghost use Rattle.teco_claimed.specs.Refused.{IsOfClaims, IsRefused, IsRefusedFor};
ghost use Rattle.teco_paths.specs.Sure.{AreCertain, AreLengths};

use crate::certificate::LinearCertificate;
use crate::checksum::checksum_of;
use crate::claimed::Claimed;
use crate::refusal::LinearRefusal;
use std::alloc::{AllocError, Global};
use teco_expansion::{Nodes, expand};
use teco_library::Library;
use teco_model::ArgumentRange;
use teco_paths::claimed::{Called, check_claimed};

// How long a text is, if there is one.
fn length_of(text: Option<&[u8]>) -> Option<usize>
    ensures { result ≡ option_map length (option_copied text.entry) }
{
    match text {
        None => None,
        Some(text) => Some(text.len()),
    }
}

/// How long the texts of a library are.
pub fn lengths_of(alloc: Global, library: &Library) -> Result<Vec<Option<usize>>, AllocError>
    ensures { IfOk result (λ lengths. AreLengths lengths.items library.now.texts) }
{
    let texts = library.texts();
    let mut lengths = Vec::new(alloc);
    for text in &texts {
        lengths.push(length_of(*text))?;
    }
    Ok(lengths)
}

// Are two arguments the same, or both none?
fn is_same(left: Option<ArgumentRange>, right: Option<ArgumentRange>) -> bool
    ensures { IsTrue result ↔ (left ≡ right) }
{
    match (left, right) {
        (None, None) => true,
        (Some(left), Some(right)) => left.low() == right.low() && left.high() == right.high(),
        _ => false,
    }
}

// Is the checksum of a certificate, if it has one, that of the texts in which the nodes stand?
fn is_of_texts(library: &Library, certificate: &LinearCertificate, nodes: &Nodes<'_>) -> bool
    ensures { IsTrue result ↔ IsOfTexts library.now certificate.now nodes.now }
{
    match certificate.checksum {
        None => true,
        Some(sum) => sum == checksum_of(library, nodes),
    }
}

// Follows all paths of a macro by what a certificate claims.
fn follow(
    nodes: &Nodes<'_>,
    lengths: &[Option<usize>],
    certificate: &LinearCertificate,
    alloc: Global,
) -> Result<(), LinearRefusal>
    ensures certain { OnOk result (AreCertain nodes.now lengths.now certificate.now.argument
        certificate.now.needs certificate.now.claims) }
    ensures refused { IfErr result (IsOfClaims nodes.now) }
{
    let called = Called {
        nodes,
        lengths,
        argument: certificate.argument,
        needs: certificate.needs,
    };
    match check_claimed(&called, &certificate.claims, alloc) {
        Ok(()) => Ok(()),
        Err(fault) => Err(LinearRefusal::of_claims(nodes, fault)),
    }
}

// Checks what a certificate claims of a macro of a library.
fn checked<'l>(
    library: &'l Library,
    certificate: LinearCertificate,
    alloc: Global,
) -> Result<Claimed<'l>, LinearRefusal>
    requires { IsWellFormed certificate }
    ensures library { IfOk result (λ found. found.library ≡ library.now) }
    ensures certificate { IfOk result (λ found. found.certificate ≡ certificate) }
    ensures declared { OnOk result (TakesDeclared library.now certificate) }
    ensures refused { IfErr result (IsRefusedFor library.now certificate) }
{
    if !is_same(certificate.argument, library.argument(certificate.entry)) {
        return Err(LinearRefusal::OtherArgument);
    }
    let nodes = expand(alloc, library, certificate.entry)?;
    if !is_of_texts(library, &certificate, &nodes) {
        return Err(LinearRefusal::OtherText);
    }
    let lengths = lengths_of(alloc, library)?;
    follow(&nodes, &lengths, &certificate, alloc)?;
    Ok(Claimed {
        library,
        certificate,
    })
}

/// Checks a certificate of the linear rules for a library: it has the argument that the library
/// declares for its entry, if it declares one, the checksum that it may have is that of the texts that
/// the macro runs, and all paths of the macro go as it claims.
///
/// Where it is refused it says which of these is not so. It takes the time and the memory that the
/// paths take, which the claims alone do not bound.
pub fn check_linear<'l>(
    library: &'l Library,
    bytes: &[u8],
    alloc: Global,
) -> Result<Claimed<'l>, LinearRefusal>
    ensures library { IfOk result (λ found. found.library ≡ library.now) }
    ensures text { IfOk result (λ found. IsTextOf found.certificate bytes.now) }
    ensures argument { IfOk result (λ found. TakesDeclared library.now found.certificate) }
    ensures refused { IfErr result (IsRefused library.now bytes.now) }
{
    let certificate = LinearCertificate::read(alloc, bytes)?;
    checked(library, certificate, alloc)
}
