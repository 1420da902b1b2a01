//! Why claims are not found to hang together.
ghost use Rattle.std.specs.Prelude.{◌≡◌};
ghost use Rattle.teco_paths.specs.declared.fault.PathFault.TheVariants.{Memory, Unknown};

use std::alloc::{AllocError, AllocFailed};
use teco_implied::ImpliedFault;
use teco_linear::LinearFault;
use teco_rows::fault::RowFault;
use thiserror::Error;

/// Why claims are not found to hang together.
#[derive(Clone, Copy, Debug, Error)]
pub enum PathFault {
    /// There is no such element.
    #[error("element {0} is not there")]
    NoElement(usize),
    /// What comes of an element is not told.
    #[error("what comes of element {0} is not told")]
    NotTold(usize),
    /// The file that an element wants is not one of those that are open.
    #[error("the file that element {0} wants is not open")]
    NotOpen(usize),
    /// A condition of an element is not implied.
    #[error("a condition of element {0} is not implied")]
    Condition(usize),
    /// More may be held at an element than is claimed.
    #[error("more may be held at element {0} than is claimed")]
    Size(usize),
    /// More steps may be done than are claimed.
    #[error("more commands may come to element {0} than are claimed")]
    Commands(usize),
    /// More bytes may be typed than are claimed.
    #[error("more bytes may be typed than are claimed")]
    Types,
    /// The claims at an element are not implied where a path comes to it.
    #[error("the claims at element {0} are not implied")]
    Claims(usize),
    /// No run comes to an element of which something is claimed.
    #[error("no run comes to element {0}, of which something is claimed")]
    Unreached(usize),
    /// A claim at an element speaks of what a state has not there.
    #[error("a claim at element {0} speaks of what is not there")]
    Unread(usize),
    /// A path is too long, or there are too many.
    #[error("the paths have too many elements")]
    TooLong,
    /// A number of a form passes its bounds.
    #[error("a number of a form is too great")]
    Unknown,
    /// A growth was refused.
    #[error("out of memory")]
    Memory,
}

impl From<AllocError> for PathFault {
    ghost from_gives = { λ _ e. e ≡ Memory };

    fn from(_refused: AllocError) -> PathFault {
        PathFault::Memory
    }
}

impl<T: Drop> From<AllocFailed<T>> for PathFault {
    ghost from_gives = { λ _ e. e ≡ Memory };

    fn from(_refused: AllocFailed<T>) -> PathFault {
        PathFault::Memory
    }
}

impl From<ImpliedFault> for PathFault {
    fn from(refused: ImpliedFault) -> PathFault {
        match refused {
            ImpliedFault::TooGreat => PathFault::Unknown,
            ImpliedFault::Memory => PathFault::Memory,
        }
    }
}

impl From<LinearFault> for PathFault {
    fn from(refused: LinearFault) -> PathFault {
        match refused {
            LinearFault::Memory => PathFault::Memory,
            _ => PathFault::Unknown,
        }
    }
}

impl From<RowFault> for PathFault {
    fn from(refused: RowFault) -> PathFault {
        match refused {
            RowFault::Linear(refused) => PathFault::from(refused),
            _ => PathFault::Unknown,
        }
    }
}
