//! Why a call on pages or on a host is refused.
ghost use Rattle.std.specs.Prelude.{◌≡◌};
ghost use Rattle.teco_hosts.specs.declared.fault.Fault.TheVariants.{Memory};

use std::alloc::{AllocError, AllocFailed};
use std::io;
use std::str::Utf8Error;
use thiserror::Error;

/// A host's call failed. Its want of memory is such a failure.
#[derive(Clone, Copy, Debug, Error)]
#[error("a file could not be used")]
pub struct Failed;

impl From<AllocError> for Failed {
    fn from(_refused: AllocError) -> Failed {
        Failed
    }
}

impl<T: Drop> From<AllocFailed<T>> for Failed {
    fn from(_refused: AllocFailed<T>) -> Failed {
        Failed
    }
}

impl From<io::Error> for Failed {
    fn from(_error: io::Error) -> Failed {
        Failed
    }
}

impl From<Utf8Error> for Failed {
    fn from(_error: Utf8Error) -> Failed {
        Failed
    }
}

/// Why a call on pages is refused.
#[derive(Clone, Copy, Debug, Error)]
pub enum Fault {
    /// An input could not be opened.
    #[error("no such file")]
    NoFile,
    /// An input could not be read.
    #[error("the input could not be read")]
    In,
    /// An output could not be opened, written, closed or dropped.
    #[error("the output could not be written")]
    Out,
    /// A page has more than `LIMIT` characters.
    #[error("the page is too long")]
    Full,
    /// A growth was refused.
    #[error("out of memory")]
    Memory,
}

impl From<AllocError> for Fault {
    ghost from_gives = { λ _ e. e ≡ Memory };

    fn from(_refused: AllocError) -> Fault {
        Fault::Memory
    }
}
