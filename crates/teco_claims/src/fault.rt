//! Why no claims are read.
ghost use Rattle.std.specs.Prelude.{◌≡◌};
ghost use Rattle.teco_claims.specs.declared.fault.ClaimsFault.TheVariants.{Memory};

use std::alloc::{AllocError, AllocFailed};
use thiserror::Error;

/// Why no claims are read.
#[derive(Clone, Copy, Debug, Error)]
pub enum ClaimsFault {
    /// The text is that of no claims; up to this place it is that of some.
    #[error("no claims: see byte {0}")]
    NotClaims(usize),
    /// A growth was refused.
    #[error("out of memory")]
    Memory,
}

impl From<AllocError> for ClaimsFault {
    ghost from_gives = { λ _ e. e ≡ Memory };

    fn from(_refused: AllocError) -> ClaimsFault {
        ClaimsFault::Memory
    }
}

impl<T: Drop> From<AllocFailed<T>> for ClaimsFault {
    ghost from_gives = { λ _ e. e ≡ Memory };

    fn from(_refused: AllocFailed<T>) -> ClaimsFault {
        ClaimsFault::Memory
    }
}
