ghost use Rattle.std.specs.Prelude.{◌≡◌};
ghost use Rattle.teco_session.specs.declared.fault.SessionFault.TheVariants.{Memory};

use std::alloc::{AllocError, AllocFailed};
use thiserror::Error;

/// Why a session breaks off.
#[derive(Clone, Copy, Debug, Error)]
pub enum SessionFault {
    /// The input could not be read, or it has more command strings than a session takes.
    #[error("the input cannot be read")]
    Read,
    /// The output could not be written.
    #[error("the output cannot be written")]
    Write,
    /// Memory for a command string was refused.
    #[error("out of memory")]
    Memory,
    /// The argument of a macro is missing, outside the declared range, or not asked for. Sessions
    /// call no macro, and never answer it.
    #[error("the argument is missing, not asked for, or not in its range")]
    Argument,
}

impl From<AllocError> for SessionFault {
    ghost from_gives = { λ _ e. e ≡ Memory };

    fn from(_refused: AllocError) -> SessionFault {
        SessionFault::Memory
    }
}

impl<T: Drop> From<AllocFailed<T>> for SessionFault {
    ghost from_gives = { λ _ e. e ≡ Memory };

    fn from(_refused: AllocFailed<T>) -> SessionFault {
        SessionFault::Memory
    }
}
