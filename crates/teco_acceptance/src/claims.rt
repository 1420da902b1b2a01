//! Macros that are accepted by claims, and why others are refused by them.
ghost use Rattle.std.specs.Prelude.{◌≡◌, IfOk};
ghost use Rattle.std.specs.Result.{IfErr};
ghost use Rattle.teco_acceptance.specs.Refused.{IsUnclaimedFor, told_of};
ghost use Rattle.teco_claimed.specs.Claimed.{TakesDeclared};
ghost use Rattle.teco_claimed.specs.Text.{linear_text};
ghost use Rattle.teco_verify.specs.Refusing.{IsOfCertificate};

use crate::failing::claimed_by;
use crate::unaccepted::Unaccepted;
use std::alloc::Global;
use teco_base::Reg;
use teco_claimed::{Claimed, LinearRefusal, NodePlace, check_linear};
use teco_console::{Means, NAMES};
use teco_expansion::ExpandFault;
use teco_library::Library;
use teco_paths::search::{ClaimSearch, SearchRefusal as Unfound};
use teco_verifier::RefusalReason as Why;
use teco_verify::{Refusal, verify};

/// The register at a place, if there is one.
pub fn register_at(place: usize) -> Option<Reg> {
    NAMES.get(place).and_then(|name| Reg::of(*name))
}

/// The text in which an element stands.
pub fn text_at(library: &Library, at: NodePlace) -> &[u8] {
    register_at(at.register)
        .and_then(|register| library.text(register))
        .unwrap_or(&[])
}

// Why an element is refused of which a condition is not shown, by its letter.
fn why_of_letter(letter: u8) -> Why {
    match letter.to_ascii_uppercase() {
        b'C' | b'R' | b'J' => Why::Place,
        b'D' | b'K' => Why::Deletion,
        b'/' => Why::Divisor,
        b'[' | b']' => Why::Pop,
        _ => Why::Argument,
    }
}

// Which condition fails, by the text behind the element's place: modifiers stand before its letter.
fn why_of_condition(text: &[u8]) -> Why {
    for byte in text {
        if *byte != b'@' && *byte != b':' {
            return why_of_letter(*byte);
        }
    }
    Why::Argument
}

// The reason why no claims are found.
fn why_of(library: &Library, why: Unfound, at: NodePlace) -> Why {
    match why {
        Unfound::NotTold(_) | Unfound::NotOpen(_) => Why::Unverified,
        Unfound::Condition(_) => {
            why_of_condition(text_at(library, at).get(at.place..).unwrap_or(&[]))
        }
        Unfound::Steps(_) => Why::Fall,
        _ => Why::Bound,
    }
}

// The first edition's reason for an element, if it refuses the macro there: it may tell more.
fn reason_there(alloc: Global, library: &Library, entry: Reg, at: NodePlace) -> Option<Why> {
    match verify(alloc, library, entry) {
        Err(
            Refusal::No {
                why,
                register: Some(register),
                place,
            },
        ) => {
            let is_there = register.index() == at.register && place == at.place;
            is_there.then_some(why)
        }
        _ => None,
    }
}

// That no bound is found: where the first edition misses one, if it does, or else at the entry's first
// element.
fn without_bound(alloc: Global, library: &Library, entry: Reg) -> Refusal {
    if let Err(refusal) = verify(alloc, library, entry) {
        let is_bound = matches!(
            refusal,
            Refusal::No {
                why: Why::Bound | Why::Overflow,
                ..
            }
        );
        if is_bound {
            return refusal;
        }
    }
    Refusal::No {
        why: Why::Bound,
        register: Some(entry),
        place: 0,
    }
}

/// Why a macro of a library is refused, as it is printed.
pub fn refusal_of(
    alloc: Global,
    library: &Library,
    entry: Reg,
    refused: &LinearRefusal,
) -> Refusal {
    match *refused {
        LinearRefusal::NotExpanded(refusal) => Refusal::from(ExpandFault::Refused(refusal)),
        LinearRefusal::NotFound { why, at: Some(at) } => {
            let own = why_of(library, why, at);
            Refusal::No {
                why: reason_there(alloc, library, entry, at).unwrap_or(own),
                register: register_at(at.register),
                place: at.place,
            }
        }
        LinearRefusal::Memory => Refusal::Memory,
        _ => without_bound(alloc, library, entry),
    }
}

/// The refusal of a certificate by claims.
pub fn refusal_of_text(refused: &LinearRefusal) -> Refusal
    ensures value { result ≡ told_of refused.now }
    ensures certificate { IsOfCertificate result }
{
    match refused {
        LinearRefusal::Memory => Refusal::Memory,
        _ => Refusal::certificate(),
    }
}

/// A macro of a library, by claims that are found and checked.
pub fn verified_by_claims<'l, S: ClaimSearch>(
    means: Means,
    library: &'l Library,
    entry: Reg,
) -> Result<Claimed<'l>, Unaccepted>
    ensures library { IfOk result (λ claimed. claimed.library ≡ library.now) }
    ensures declared { IfOk result (λ claimed. TakesDeclared library.now claimed.certificate) }
    ensures entry { IfOk result (λ claimed. claimed.certificate.entry ≡ entry) }
{
    match claimed_by::<S>(means, library, entry) {
        Ok(claimed) => Ok(claimed),
        Err(unclaimed) => Err(Unaccepted {
            refusal: refusal_of(means.alloc, library, entry, &unclaimed.unverified.refusal),
            unclaimed: Some(unclaimed),
        }),
    }
}

/// The macro that a text is the certificate of, if that is the entry.
pub fn accepted_by_claims<'l>(
    alloc: Global,
    library: &'l Library,
    entry: Reg,
    text: &[u8],
) -> Result<Claimed<'l>, LinearRefusal>
    ensures library { IfOk result (λ claimed. claimed.library ≡ library.now) }
    ensures declared { IfOk result (λ claimed. TakesDeclared library.now claimed.certificate) }
    ensures entry { IfOk result (λ claimed. claimed.certificate.entry ≡ entry) }
    ensures text { IfOk result (λ claimed. linear_text claimed.certificate ≡ text.now) }
    ensures refused { IfErr result (IsUnclaimedFor text.now library.now entry) }
{
    let claimed = check_linear(library, text, alloc)?;
    if claimed.entry().index() == entry.index() {
        Ok(claimed)
    } else {
        Err(LinearRefusal::NotACertificate)
    }
}
