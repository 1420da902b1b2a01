//! Why a call on the registers is refused.
ghost use Rattle.std.specs.Prelude.{◌≡◌};
ghost use Rattle.teco_regs.specs.declared.fault.RegFault.TheVariants.{Memory};

use std::alloc::{AllocError, AllocFailed};
use thiserror::Error;

/// Why a call on the registers is refused. They are then as they were.
#[derive(Clone, Copy, Debug, Error)]
pub enum RegFault {
    /// The push-down list is empty.
    #[error("the push-down list is empty")]
    Empty,
    /// The text would have more than `LIMIT` characters.
    #[error("the text would be too long")]
    Full,
    /// A growth was refused.
    #[error("out of memory")]
    Memory,
}

impl From<AllocError> for RegFault {
    ghost from_gives = { λ _ e. e ≡ Memory };

    fn from(_refused: AllocError) -> RegFault {
        RegFault::Memory
    }
}

impl<T: Drop> From<AllocFailed<T>> for RegFault {
    ghost from_gives = { λ _ e. e ≡ Memory };

    fn from(_refused: AllocFailed<T>) -> RegFault {
        RegFault::Memory
    }
}
