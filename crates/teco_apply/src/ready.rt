//! Why a verified macro is not run.
ghost use Rattle.std.specs.Prelude.{◌≡◌};
ghost use Rattle.teco_apply.specs.declared.ready.NotReady.TheVariants.{Memory};

use std::alloc::AllocError;
use thiserror::Error;

/// Why a verified macro is not run.
#[derive(Clone, Copy, Debug, Error)]
pub enum NotReady {
    /// The macro needs an input, and none is open.
    #[error("no input file")]
    NoInput,
    /// The macro needs an output, and none is open.
    #[error("no output file")]
    NoOutput,
    /// The macro takes an argument and is given none, or one outside its range; or it takes none
    /// and is given one.
    #[error("the argument is missing, not asked for, or not in its range")]
    Argument,
    /// There is no memory for the library's texts.
    #[error("out of memory")]
    Memory,
}

impl From<AllocError> for NotReady {
    ghost from_gives = { λ _ e. e ≡ Memory };

    fn from(_refused: AllocError) -> NotReady {
        NotReady::Memory
    }
}
