//! Why a call on facts gives none.
ghost use Rattle.std.specs.Prelude.{◌≡◌};
ghost use Rattle.teco_facts.specs.declared.fault.FactFault.TheVariants as fault;

use std::alloc::AllocError;
use teco_verifier::RefusalReason;

/// Why there are no edges.
#[derive(Clone, Copy)]
pub enum FactFault {
    /// The rules refuse.
    Refused(RefusalReason),
    /// A growth was refused.
    Memory,
}

impl From<RefusalReason> for FactFault {
    ghost from_gives = { λ why told. told ≡ fault.Refused why };

    fn from(why: RefusalReason) -> FactFault {
        FactFault::Refused(why)
    }
}

impl From<AllocError> for FactFault {
    ghost from_gives = { λ _ told. told ≡ fault.Memory };

    fn from(_refused: AllocError) -> FactFault {
        FactFault::Memory
    }
}
