//! Why a certificate of the linear rules is refused.
ghost use Rattle.std.specs.Prelude.{◌≡◌};
ghost use Rattle.teco_claimed.specs.Refused.{place_told, refusal_by_claims, refusal_by_expansion};
ghost use Rattle.teco_claimed.specs.Refused.{refusal_by_reading, number_told};
ghost use Rattle.teco_claimed.specs.declared.refusal.LinearRefusal.TheVariants.{Memory};

use std::alloc::AllocError;
use std::fmt;
use teco_certificate::CertificateFault;
use teco_expansion::{ExpandFault, ExpandReason, Nodes, PlacedReason};
use teco_paths::fault::PathFault;
use teco_paths::search::SearchRefusal as Unfound;
use thiserror::Error;

/// Where the element of a node stands: the place of the register in whose text, and its place there.
#[derive(Clone, Copy, PartialEq, Eq)]
pub struct NodePlace {
    /// The place of the register, 0 for `A`.
    pub register: usize,
    /// The place of the element in its text.
    pub place: usize,
}

/// Why a certificate of the linear rules is refused.
#[derive(Clone, Copy, Error)]
pub enum LinearRefusal {
    /// The text is no certificate of the linear rules.
    #[error("the text is no certificate of the linear rules")]
    NotACertificate,
    /// Its argument is not the one that the library declares for the entry, if it declares one.
    #[error("the argument is not the one that the library declares")]
    OtherArgument,
    /// The macro has no expansion.
    #[error("the macro has no expansion: {}", reason_text(.0.reason))]
    NotExpanded(PlacedReason),
    /// Its checksum is not that of the texts that the macro runs.
    #[error("this is the certificate of another macro: its texts have another checksum")]
    OtherText,
    /// The claims do not hang together.
    #[error("{fault}")]
    NotCertain {
        /// Why.
        fault: PathFault,
        /// Where the element stands whose number that tells, if there is one.
        at: Option<NodePlace>,
    },
    /// No claims are found.
    #[error("{why}")]
    NotFound {
        /// Why.
        why: Unfound,
        /// Where the element stands whose number that tells, if there is one.
        at: Option<NodePlace>,
    },
    /// A growth was refused.
    #[error("out of memory")]
    Memory,
}

// Why a macro has no expansion.
fn reason_text(reason: ExpandReason) -> &'static str {
    match reason {
        ExpandReason::Fault => "an element or a search text has a fault",
        ExpandReason::Unpaired => "a bracket, a pipe or a tag has no partner, or pairs overlap",
        ExpandReason::NoMacro => "what is called is no macro of the library",
        ExpandReason::Recursion => "a macro calls itself, or one that calls it",
        ExpandReason::TooLarge => "there are too many elements, open calls or open iterations",
    }
}

impl fmt::Debug for LinearRefusal {
    fn fmt<W: fmt::Write>(&self, f: &mut fmt::Formatter<W>) -> fmt::Result {
        write!(f, "{self}")
    }
}

impl From<AllocError> for LinearRefusal {
    ghost from_gives = { λ _ refused. refused ≡ Memory };

    fn from(_refused: AllocError) -> LinearRefusal {
        LinearRefusal::Memory
    }
}

impl From<CertificateFault> for LinearRefusal {
    ghost from_gives = { λ fault refused. refused ≡ refusal_by_reading fault };

    fn from(fault: CertificateFault) -> LinearRefusal {
        match fault {
            CertificateFault::NotACertificate => LinearRefusal::NotACertificate,
            CertificateFault::Memory => LinearRefusal::Memory,
        }
    }
}

impl From<ExpandFault> for LinearRefusal {
    ghost from_gives = { λ fault refused. refused ≡ refusal_by_expansion fault };

    fn from(fault: ExpandFault) -> LinearRefusal {
        match fault {
            ExpandFault::Refused(refusal) => LinearRefusal::NotExpanded(refusal),
            ExpandFault::Memory => LinearRefusal::Memory,
        }
    }
}

// The number of the element that a fault tells, if it tells one.
fn number_in(fault: PathFault) -> Option<usize>
    ensures { result ≡ number_told fault }
{
    match fault {
        PathFault::NoElement(number)
        | PathFault::NotTold(number)
        | PathFault::NotOpen(number)
        | PathFault::Condition(number)
        | PathFault::Size(number)
        | PathFault::Commands(number)
        | PathFault::Claims(number)
        | PathFault::Unreached(number)
        | PathFault::Unread(number) => Some(number),
        PathFault::TooLong | PathFault::Types | PathFault::Unknown | PathFault::Memory => None,
    }
}

// Where the element stands whose number a fault tells, if there is one.
fn place_in(nodes: &Nodes<'_>, fault: PathFault) -> Option<NodePlace>
    ensures { result ≡ place_told nodes.now fault }
{
    let number = number_in(fault)?;
    if number == 0 || number > nodes.len() {
        return None;
    }
    Some(NodePlace {
        register: nodes.register(number),
        place: nodes.place(number),
    })
}

// The number of the element at which no claims are found, if it tells one.
fn number_unfound(why: Unfound) -> Option<usize> {
    match why {
        Unfound::NotTold(number)
        | Unfound::NotOpen(number)
        | Unfound::Condition(number)
        | Unfound::Steps(number) => Some(number),
        Unfound::NotAccepted(fault) => number_in(fault),
        Unfound::TooMuch(number) => number,
        Unfound::Size | Unfound::Memory => None,
    }
}

/// Where the element of a number stands, if there is one.
pub(crate) fn place_at(nodes: &Nodes<'_>, number: Option<usize>) -> Option<NodePlace> {
    let number = number?;
    if number == 0 || number > nodes.len() {
        return None;
    }
    Some(NodePlace {
        register: nodes.register(number),
        place: nodes.place(number),
    })
}

impl LinearRefusal {
    /// Where no claims of a macro with these nodes are found.
    pub(crate) fn of_search(nodes: &Nodes<'_>, why: Unfound) -> LinearRefusal {
        match why {
            Unfound::Memory => LinearRefusal::Memory,
            why => LinearRefusal::NotFound {
                why,
                at: place_at(nodes, number_unfound(why)),
            },
        }
    }

    /// Where the claims of a macro with these nodes do not hang together.
    pub(crate) fn of_claims(nodes: &Nodes<'_>, fault: PathFault) -> LinearRefusal
        ensures { result ≡ refusal_by_claims nodes.now fault }
    {
        match fault {
            PathFault::Memory => LinearRefusal::Memory,
            fault => LinearRefusal::NotCertain {
                fault,
                at: place_in(nodes, fault),
            },
        }
    }
}
