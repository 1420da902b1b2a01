//! Why no outcomes are told.
ghost use Rattle.std.specs.Prelude.{◌≡◌};
ghost use Rattle.teco_rows.specs.declared.fault.RowFault.TheVariants.{Linear};
ghost use Rattle.teco_linear.specs.declared.fault.LinearFault.TheVariants.{Memory};

use std::alloc::{AllocError, AllocFailed};
use teco_linear::LinearFault;
use thiserror::Error;

/// Why no outcomes are told.
#[derive(Clone, Copy, Debug, Error)]
pub enum RowFault {
    /// A form was refused.
    #[error("{0}")]
    Linear(LinearFault),
    /// A measure has no place among the forms of a case.
    #[error("too many iterations, pushes or levels")]
    TooMany,
    /// An argument is missing or one too many.
    #[error("a wrong argument")]
    Argument,
    /// The element's outcomes are not told here.
    #[error("what comes of it is not told")]
    NotTold,
}

impl From<LinearFault> for RowFault {
    ghost from_gives = { λ refused e. e ≡ Linear refused };

    fn from(refused: LinearFault) -> RowFault {
        RowFault::Linear(refused)
    }
}

impl From<AllocError> for RowFault {
    ghost from_gives = { λ _ e. e ≡ Linear Memory };

    fn from(_refused: AllocError) -> RowFault {
        RowFault::Linear(LinearFault::Memory)
    }
}

impl<T: Drop> From<AllocFailed<T>> for RowFault {
    ghost from_gives = { λ _ e. e ≡ Linear Memory };

    fn from(_refused: AllocFailed<T>) -> RowFault {
        RowFault::Linear(LinearFault::Memory)
    }
}
