//! Looking for a certificate of the linear rules.
ghost use Rattle.std.specs.Prelude.{◌≡◌, IfOk, IsSome};
ghost use Rattle.teco_claimed.specs.Claimed.{TakesDeclared};

use crate::certificate::LinearCertificate;
use crate::check::{check_linear, lengths_of};
use crate::checksum::checksum_of;
use crate::claimed::Claimed;
use crate::refusal::{LinearRefusal, NodePlace, place_at};
use crate::unverified::Unverified;
use std::alloc::Global;
use teco_base::Reg;
use teco_claims::{Claim, ClaimMeasure, ClaimSingle, Claims};
use teco_expansion::{Nodes, expand};
use teco_library::Library;
use teco_model::kind::{Page, Search};
use teco_model::{Kind, Needs};
use teco_paths::claimed::Called;
use teco_paths::search::{
    Attempt, Budget, ClaimSearch, Effort, SearchFailure, SearchRefusal as Unfound,
};

// The files that an element wants.
fn wanted_by(kind: Kind) -> Needs {
    Needs {
        input: matches!(kind, Kind::Page(Page::Yank)),
        output: matches!(
            kind,
            Kind::Page(Page::Next | Page::Write)
                | Kind::Search(Search::FindInPages | Search::ReplaceInPages)
        ),
    }
}

// The files that some element of a macro wants.
fn needs_of(nodes: &Nodes<'_>) -> Needs {
    let mut needs = Needs {
        input: false,
        output: false,
    };
    for before in 0..nodes.len() {
        if let Some(element) = nodes.element(before + 1) {
            let wanted = wanted_by(element.kind);
            needs.input = needs.input || wanted.input;
            needs.output = needs.output || wanted.output;
        }
    }
    needs
}

// Whether a claim speaks of the bytes that were typed, or of what was held at the entry.
fn is_not_owed(claim: &Claim) -> bool {
    claim.terms.iter().any(|term| matches!(
        term.measure,
        Some(ClaimMeasure::One(ClaimSingle::Typed | ClaimSingle::EntryHeld))
    ))
}

// Claims without those of the bytes that were typed and of how much longer the text gets.
fn only_owed(claims: Claims) -> Claims {
    let Claims {
        commands,
        size,
        grows: _grows,
        types: _typed,
        mut cuts,
    } = claims;
    for cut in cuts.iter_mut() {
        cut.claims.retain(|claim| !is_not_owed(claim));
    }
    Claims {
        commands,
        size,
        grows: None,
        types: None,
        cuts,
    }
}

// The macro by claims.
fn by_claims<'l>(
    library: &'l Library,
    entry: Reg,
    certificate: &LinearCertificate,
    alloc: Global,
) -> Result<Claimed<'l>, LinearRefusal>
    ensures library { IfOk result (λ found. found.library ≡ library.now) }
    ensures declared { IfOk result (λ found. TakesDeclared library.now found.certificate) }
    ensures entry { IfOk result (λ found. found.certificate.entry ≡ entry) }
    ensures checksum { IfOk result (λ found. IsSome found.certificate.checksum) }
{
    let text = certificate.write(alloc)?;
    let claimed = check_linear(library, &text, alloc)?;
    let is_asked = claimed.entry().index() == entry.index();
    if is_asked && claimed.certificate.checksum.is_some() {
        Ok(claimed)
    } else {
        Err(LinearRefusal::NotACertificate)
    }
}

// Whether a bound is claimed that is not owed.
fn claims_more(claims: &Claims) -> bool {
    claims.grows.is_some() || claims.types.is_some()
}

// The macro of a library that claims are looked for, its nodes, and the files that are open.
#[derive(Clone, Copy)]
struct Sought<'n, 'l> {
    library: &'l Library,
    entry: Reg,
    nodes: &'n Nodes<'l>,
    needs: Needs,
}

// The macro by the claims that one way of looking for them has found. Where they are not certain, those of
// typed bytes and of the text's growth are left out: no bound on these is owed.
fn verify_found<'l>(
    library: &'l Library,
    entry: Reg,
    called: &Called<'_>,
    found: Result<Claims, SearchFailure>,
    alloc: Global,
) -> Result<Claimed<'l>, Unverified>
    ensures library { IfOk result (λ found. found.library ≡ library.now) }
    ensures declared { IfOk result (λ found. TakesDeclared library.now found.certificate) }
    ensures entry { IfOk result (λ found. found.certificate.entry ≡ entry) }
    ensures checksum { IfOk result (λ found. IsSome found.certificate.checksum) }
{
    let claims = match found {
        Ok(claims) => claims,
        Err(failure) => return Err(Unverified::of_search(called, failure, alloc)),
    };
    let checksum = Some(checksum_of(library, called.nodes));
    let certificate = LinearCertificate {
        entry,
        argument: called.argument,
        needs: called.needs,
        checksum,
        claims,
    };
    match by_claims(library, entry, &certificate, alloc) {
        Err(LinearRefusal::NotCertain { .. }) if claims_more(&certificate.claims) => {
            let certificate = LinearCertificate {
                entry,
                argument: called.argument,
                needs: called.needs,
                checksum,
                claims: only_owed(certificate.claims),
            };
            Ok(by_claims(library, entry, &certificate, alloc)?)
        }
        answer => Ok(answer?),
    }
}

// Why a way of looking found none, if that is the refusal.
fn unfound(refused: LinearRefusal) -> Option<Unfound> {
    match refused {
        LinearRefusal::NotFound { why, .. } => Some(why),
        _ => None,
    }
}

// The way of looking that is worth its time behind this refusal, where the first way had another. Claims
// that are not certain are as good as none: the refusal is then the first way's.
fn next_behind<S: ClaimSearch>(
    first: LinearRefusal,
    refused: LinearRefusal,
    way: usize,
) -> Option<usize> {
    let why = match refused {
        LinearRefusal::NotFound { why, .. } => why,
        LinearRefusal::NotCertain { .. } => unfound(first).unwrap_or(Unfound::Size),
        _ => return None,
    };
    S::next_way(unfound(first).unwrap_or(why), why, way)
}

// Is it that claims were found that are not certain?
fn is_doubt(refused: LinearRefusal) -> bool {
    matches!(refused, LinearRefusal::NotCertain { .. })
}

// Notes what one more way of looking says of a macro that is not verified: the reason is the first one's.
fn note(first: &mut Option<Unverified>, next: Unverified) {
    match first {
        None => *first = Some(next),
        Some(first) => {
            first.needs = next.needs;
            first.left = next.left;
            first.is_given_up = first.is_given_up || next.is_given_up;
        }
    }
}

// The refusal of the first way, which may be this one.
fn first_of(first: &Option<Unverified>, refusal: LinearRefusal) -> LinearRefusal {
    match first {
        None => refusal,
        Some(first) => first.refusal,
    }
}

// The macro by claims that are looked for in a number of ways: from the first on, or behind the first, which
// found none. A refusal is that of the first way.
fn verify_by_ways<'l, S: ClaimSearch>(
    sought: Sought<'_, 'l>,
    first: Option<Unverified>,
    ways: usize,
    budget: &mut Budget,
    alloc: Global,
) -> Result<Claimed<'l>, Unverified>
    ensures library { IfOk result (λ found. found.library ≡ sought.entry.library.now) }
    ensures declared { IfOk result (λ found. TakesDeclared sought.entry.library.now found.certificate) }
    ensures entry { IfOk result (λ found. found.certificate.entry ≡ sought.entry.entry) }
    ensures checksum { IfOk result (λ found. IsSome found.certificate.checksum) }
{
    let Sought {
        library,
        entry,
        nodes,
        needs,
    } = sought;
    let lengths = lengths_of(alloc, library).map_err(LinearRefusal::from)?;
    let called = Called {
        nodes,
        lengths: &lengths,
        argument: library.argument(entry),
        needs,
    };
    let (mut next, mut is_behind_doubt) = match &first {
        None => (Some(0), false),
        Some(first) => (
            next_behind::<S>(first.refusal, first.refusal, 0),
            is_doubt(first.refusal),
        ),
    };
    let mut first = first;
    for _ in 0..ways {
        let Some(way) = next else {
            break;
        };
        let attempt = Attempt {
            way,
            is_behind_doubt,
        };
        let found = S::find(&called, attempt, budget, alloc);
        match verify_found(library, entry, &called, found, alloc) {
            Ok(claimed) => return Ok(claimed),
            Err(mut unverified) => {
                unverified.needs = needs;
                unverified.left = budget.left;
                let refusal = unverified.refusal;
                next = next_behind::<S>(first_of(&first, refusal), refusal, way);
                is_behind_doubt = is_behind_doubt || is_doubt(refusal);
                note(&mut first, unverified);
            }
        }
    }
    Err(first.unwrap_or(Unverified::from(LinearRefusal::NotACertificate)))
}

// Is it a file that was not open?
fn wants_file(refused: LinearRefusal) -> bool {
    matches!(
        refused,
        LinearRefusal::NotFound {
            why: Unfound::NotOpen(_),
            ..
        }
    )
}

// The nodes of a macro.
fn nodes_of<'l>(
    library: &'l Library,
    entry: Reg,
    alloc: Global,
) -> Result<Nodes<'l>, LinearRefusal> {
    Ok(expand(alloc, library, entry)?)
}

/// A macro of a library, by claims that are looked for in the quickest way alone.
///
/// `A` alone wants an input, and `nA` none: where no input is known to be wanted, claims are looked for
/// without one first.
///
/// # Errors
///
/// As of [`verify_linear`]; [`verify_further`] may find some.
pub fn verify_quickly<'l, S: ClaimSearch>(
    library: &'l Library,
    entry: Reg,
    effort: Effort,
    alloc: Global,
) -> Result<Claimed<'l>, Unverified>
    ensures library { IfOk result (λ found. found.library ≡ library.now) }
    ensures declared { IfOk result (λ found. TakesDeclared library.now found.certificate) }
    ensures entry { IfOk result (λ found. found.certificate.entry ≡ entry) }
    ensures checksum { IfOk result (λ found. IsSome found.certificate.checksum) }
{
    let nodes = nodes_of(library, entry, alloc)?;
    let needs = needs_of(&nodes);
    let sought = Sought {
        library,
        entry,
        nodes: &nodes,
        needs,
    };
    let mut budget = Budget::of(effort, S::STEPS);
    match verify_by_ways::<S>(sought, None, 1, &mut budget, alloc) {
        Err(unverified) if wants_file(unverified.refusal) && !needs.input => {
            let needs = Needs {
                input: true,
                output: needs.output,
            };
            let sought = Sought {
                library,
                entry,
                nodes: &nodes,
                needs,
            };
            verify_by_ways::<S>(sought, None, 1, &mut budget, alloc)
        }
        answer => answer,
    }
}

/// A macro of a library, by claims that are looked for in the ways behind the quickest, which found none.
///
/// # Errors
///
/// That of the quickest way, if no other finds some.
pub fn verify_further<'l, S: ClaimSearch>(
    library: &'l Library,
    entry: Reg,
    quickest: Unverified,
    effort: Effort,
    alloc: Global,
) -> Result<Claimed<'l>, Unverified>
    ensures library { IfOk result (λ found. found.library ≡ library.now) }
    ensures declared { IfOk result (λ found. TakesDeclared library.now found.certificate) }
    ensures entry { IfOk result (λ found. found.certificate.entry ≡ entry) }
    ensures checksum { IfOk result (λ found. IsSome found.certificate.checksum) }
{
    let nodes = nodes_of(library, entry, alloc)?;
    let sought = Sought {
        library,
        entry,
        nodes: &nodes,
        needs: quickest.needs,
    };
    let mut budget = Budget {
        effort,
        left: quickest.left,
    };
    verify_by_ways::<S>(sought, Some(quickest), S::WAYS, &mut budget, alloc)
}

/// A macro of a library, by claims that are looked for with an effort, and checked.
///
/// # Errors
///
/// Why none are found, and what more would do, where that can be told. There may be some all the same.
pub fn verify_linear<'l, S: ClaimSearch>(
    library: &'l Library,
    entry: Reg,
    effort: Effort,
    alloc: Global,
) -> Result<Claimed<'l>, Unverified>
    ensures library { IfOk result (λ found. found.library ≡ library.now) }
    ensures declared { IfOk result (λ found. TakesDeclared library.now found.certificate) }
    ensures entry { IfOk result (λ found. found.certificate.entry ≡ entry) }
    ensures checksum { IfOk result (λ found. IsSome found.certificate.checksum) }
{
    match verify_quickly::<S>(library, entry, effort, alloc) {
        Ok(claimed) => Ok(claimed),
        Err(quickest) => verify_further::<S>(library, entry, quickest, effort, alloc),
    }
}
