// Why no form is made, or an inequality is not judged.
ghost use Rattle.std.specs.Prelude.{◌≡◌};
ghost use Rattle.teco_linear.specs.declared.fault.LinearFault.TheVariants.{Memory};

use std::alloc::{AllocError, AllocFailed};
use thiserror::Error;

/// Why no form is made, or an inequality is not judged.
#[derive(Clone, Copy, Debug, Error)]
pub enum LinearFault {
    /// A coefficient or a constant passes 128 bits.
    #[error("a coefficient does not fit 128 bits")]
    Overflow,
    /// A power of N is above `MAX_POWER`.
    #[error("a power of N is too high")]
    PowerTooHigh,
    /// A form has more than `MAX_TERMS` terms.
    #[error("a form has too many terms")]
    TooManyTerms,
    /// A symbol has no form that could stand for it.
    #[error("a symbol is not known")]
    UnknownSymbol,
    /// A multiplier names a constraint that is not there.
    #[error("a multiplier names no constraint")]
    UnknownConstraint,
    /// The divisor is 0.
    #[error("the divisor is 0")]
    ZeroDivisor,
    /// A growth was refused.
    #[error("out of memory")]
    Memory,
}

impl From<AllocError> for LinearFault {
    ghost from_gives = { λ _ e. e ≡ Memory };

    fn from(_refused: AllocError) -> LinearFault {
        LinearFault::Memory
    }
}

impl<T: Drop> From<AllocFailed<T>> for LinearFault {
    ghost from_gives = { λ _ e. e ≡ Memory };

    fn from(_refused: AllocFailed<T>) -> LinearFault {
        LinearFault::Memory
    }
}
