//! Why a macro or a certificate is refused.
ghost use Rattle.std.specs.Prelude.{◌≡◌, ◌<◌, ◌≤◌, length};
ghost use Rattle.teco_check.specs.Here.{node_at};
ghost use Rattle.teco_verify.specs.Unfit.{IsIn};
ghost use Rattle.teco_expansion.specs.Refused.{reason_seen};
ghost use Rattle.teco_verify.specs.Refusing as rules;
ghost use Rattle.teco_verify.specs.declared.refusal.Refusal.TheVariants as refusal;

use crate::certifying::CertificateFlaw;
use crate::unfit::Unfit;
use std::alloc::AllocError;
use teco_base::{REGISTERS, Reg};
use teco_check::NotDerived;
use teco_expansion::{ExpandFault, ExpandReason, Nodes};
use teco_verifier::RefusalReason as Why;

/// Why a macro or a certificate is refused.
#[derive(Clone, Copy)]
pub enum Refusal {
    /// By the rules: the reason, and the text and the place of the element that it stands at.
    No {
        /// The reason.
        why: Why,
        /// The register of the text; none for a library file and a certificate.
        register: Option<Reg>,
        /// The place in it, of a library file, or 0.
        place: usize,
    },
    /// A growth was refused.
    Memory,
}

impl From<AllocError> for Refusal {
    ghost from_gives = { λ _ why. why ≡ refusal.Memory };

    fn from(_refused: AllocError) -> Refusal {
        Refusal::Memory
    }
}

/// The register at a place, if there is one.
pub fn register_at(place: usize) -> Option<Reg>
    ensures { result ≡ rules.register_of place }
{
    if place < REGISTERS {
        Some(teco_check::register_at(place))
    } else {
        None
    }
}

// Why an element is not expanded.
fn why_of(reason: ExpandReason) -> Why
    ensures { result ≡ rules.why_of (reason_seen reason) }
{
    match reason {
        ExpandReason::Fault => Why::Fault,
        ExpandReason::Unpaired => Why::Partner,
        ExpandReason::NoMacro => Why::Missing,
        ExpandReason::Recursion => Why::Recursion,
        ExpandReason::TooLarge => Why::Size,
    }
}

impl From<ExpandFault> for Refusal {
    ghost from_gives = { λ fault refused. refused ≡ rules.refusal_of_fault fault };

    fn from(fault: ExpandFault) -> Refusal {
        match fault {
            ExpandFault::Refused(refusal) => Refusal::No {
                why: why_of(refusal.reason),
                register: register_at(refusal.register),
                place: refusal.place,
            },
            ExpandFault::Memory => Refusal::Memory,
        }
    }
}

impl Refusal {
    // At a node.
    pub fn at(why: Why, nodes: &Nodes<'_>, number: usize) -> Refusal
        requires one { 0 < number }
        requires last { number ≤ length nodes.now }
        ensures { result ≡ rules.refusal_at why (node_at nodes.now number) }
    {
        Refusal::No {
            why,
            register: register_at(nodes.register(number)),
            place: nodes.place(number),
        }
    }

    // Of a certificate.
    pub fn certificate() -> Refusal
        ensures { result ≡ rules.refusal_of_certificate }
    {
        Refusal::No {
            why: Why::Certificate,
            register: None,
            place: 0,
        }
    }

    // Where no choices are found.
    pub fn unfit(unfit: Unfit, nodes: &Nodes<'_>) -> Refusal
        requires { IsIn nodes.now unfit }
        ensures { result ≡ rules.refusal_of_unfit nodes.now unfit }
    {
        match unfit {
            Unfit::Refused { why, number } => Refusal::at(why, nodes, number),
            Unfit::GivenUp { number } => Refusal::at(Why::Bound, nodes, number),
            Unfit::Memory => Refusal::Memory,
        }
    }
}

/// Why no table is derived, as why no choices are found.
pub fn unfit_underived(why: NotDerived) -> Unfit
    ensures { result ≡ rules.unfit_of why }
{
    match why {
        NotDerived::Memory => Unfit::Memory,
        NotDerived::Refused { why, node } => Unfit::Refused { why, number: node },
        NotDerived::Large { node } => Unfit::Refused {
            why: Why::Bound,
            number: node,
        },
    }
}

/// Why a table that was derived certifies nothing, in the same way.
pub fn unfit_flawed(flaw: CertificateFlaw) -> Unfit
    ensures { result ≡ rules.unfit_by flaw }
{
    match flaw {
        CertificateFlaw::Open { number } => Unfit::Refused {
            why: Why::Bound,
            number,
        },
        CertificateFlaw::Overflow { number } => Unfit::Refused {
            why: Why::Overflow,
            number,
        },
        CertificateFlaw::Memory => Unfit::Memory,
    }
}
