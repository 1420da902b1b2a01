//! Why no choices are found.
ghost use Rattle.std.specs.Prelude.{◌≡◌};
ghost use Rattle.teco_verify.specs.Unfit.{IsAt};
ghost use Rattle.teco_verify.specs.declared.unfit.Unfit.TheVariants.{Memory};

use std::alloc::{AllocError, AllocFailed, Global};
use teco_facts::FactFault;
use teco_verifier::{LoopLine, RefusalReason};

/// Why no choices are found.
#[derive(Clone, Copy)]
pub enum Unfit {
    /// The rules refuse at the node of this number.
    Refused { why: RefusalReason, number: usize },
    /// The search passed as many nodes as it may, and came to the node of this number.
    GivenUp { number: usize },
    /// A growth was refused.
    Memory,
}

impl Unfit {
    // A refusal at a node.
    pub fn at(why: RefusalReason, number: usize) -> Unfit
        ensures { IsAt number result }
    {
        Unfit::Refused { why, number }
    }

    // What a call on facts answers at a node.
    pub fn by(fault: FactFault, number: usize) -> Unfit
        ensures { IsAt number result }
    {
        match fault {
            FactFault::Refused(why) => Unfit::at(why, number),
            FactFault::Memory => Unfit::Memory,
        }
    }
}

/// Why no choices are found, and what was chosen where the search ended.
#[derive(Drop)]
pub struct Unfound {
    pub why: Unfit,
    pub chosen: Vec<LoopLine>,
}

impl Unfound {
    // Memory was refused.
    pub fn memory(alloc: Global) -> Unfound
        ensures { result.why ≡ Memory }
    {
        Unfound {
            why: Unfit::Memory,
            chosen: Vec::new(alloc),
        }
    }
}

impl From<AllocError> for Unfit {
    ghost from_gives = { λ _ why. why ≡ Memory };

    fn from(_: AllocError) -> Unfit {
        Unfit::Memory
    }
}

impl<T: Drop> From<AllocFailed<T>> for Unfit {
    ghost from_gives = { λ _ why. why ≡ Memory };

    fn from(_: AllocFailed<T>) -> Unfit {
        Unfit::Memory
    }
}
