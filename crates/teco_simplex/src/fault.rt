//! Why a program has no answer.
use std::alloc::{AllocError, AllocFailed};
use thiserror::Error;

/// Why a program has no answer.
#[derive(Clone, Copy, Debug, Error)]
pub enum SimplexFault {
    /// The limit of pivots was reached.
    #[error("the limit of pivots is reached")]
    GivenUp,
    /// A number of the search, or of the check of what it found, left 128 bits.
    #[error("a number leaves 128 bits")]
    TooLarge,
    /// A term names a variable that the program does not have.
    #[error("a term names no variable")]
    UnknownVariable,
    /// A growth was refused.
    #[error("out of memory")]
    Memory,
}

impl From<AllocError> for SimplexFault {
    fn from(_refused: AllocError) -> SimplexFault {
        SimplexFault::Memory
    }
}

impl<T: Drop> From<AllocFailed<T>> for SimplexFault {
    fn from(_refused: AllocFailed<T>) -> SimplexFault {
        SimplexFault::Memory
    }
}
