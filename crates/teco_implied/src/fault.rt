//! Why nothing can be said of what is implied.
ghost use Rattle.std.specs.Prelude.{◌≡◌};
ghost use Rattle.teco_implied.specs.declared.fault.ImpliedFault.TheVariants.{Memory};

use std::alloc::{AllocError, AllocFailed};
use teco_linear::LinearFault;
use teco_rows::fault::RowFault;
use teco_simplex::SimplexFault;
use thiserror::Error;

/// Why nothing can be said of what is implied.
#[derive(Clone, Copy, Debug, Error)]
pub enum ImpliedFault {
    /// A number of a form passes its bounds.
    #[error("a number of a form is too great")]
    TooGreat,
    /// A growth was refused.
    #[error("out of memory")]
    Memory,
}

impl From<AllocError> for ImpliedFault {
    ghost from_gives = { λ _ e. e ≡ Memory };

    fn from(_refused: AllocError) -> ImpliedFault {
        ImpliedFault::Memory
    }
}

impl<T: Drop> From<AllocFailed<T>> for ImpliedFault {
    ghost from_gives = { λ _ e. e ≡ Memory };

    fn from(_refused: AllocFailed<T>) -> ImpliedFault {
        ImpliedFault::Memory
    }
}

impl From<LinearFault> for ImpliedFault {
    fn from(refused: LinearFault) -> ImpliedFault {
        match refused {
            LinearFault::Memory => ImpliedFault::Memory,
            _ => ImpliedFault::TooGreat,
        }
    }
}

impl From<RowFault> for ImpliedFault {
    fn from(refused: RowFault) -> ImpliedFault {
        match refused {
            RowFault::Linear(refused) => ImpliedFault::from(refused),
            _ => ImpliedFault::TooGreat,
        }
    }
}

impl From<SimplexFault> for ImpliedFault {
    fn from(refused: SimplexFault) -> ImpliedFault {
        match refused {
            SimplexFault::Memory => ImpliedFault::Memory,
            _ => ImpliedFault::TooGreat,
        }
    }
}
