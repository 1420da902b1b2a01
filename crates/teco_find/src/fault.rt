//! Why no pattern is made of a search text.
ghost use Rattle.std.specs.Prelude.{◌≡◌};
ghost use Rattle.teco_find.specs.declared.fault.FindFault.TheVariants.{Memory};
ghost use Rattle.teco_find.specs.Reading.{fault_of};

use std::alloc::{AllocError, AllocFailed};
use thiserror::Error;

/// Why no pattern is made of a search text.
#[derive(Clone, Copy, Debug, Error)]
pub enum FindFault {
    /// A control is none that there is, or the text's end cuts it off.
    #[error("a search text with an ill-formed control")]
    Ice,
    /// What is named is no register.
    #[error("a search text with the name of no register")]
    Iqn,
    /// A growth was refused.
    #[error("out of memory")]
    Memory,
}

// A code that reading gives, whatever memory does.
#[derive(Clone, Copy)]
pub(crate) enum Flaw {
    Ice,
    Iqn,
}

impl From<Flaw> for FindFault {
    ghost from_gives = { λ flaw e. e ≡ fault_of flaw };

    fn from(flaw: Flaw) -> FindFault {
        match flaw {
            Flaw::Ice => FindFault::Ice,
            Flaw::Iqn => FindFault::Iqn,
        }
    }
}

impl From<AllocError> for FindFault {
    ghost from_gives = { λ _ e. e ≡ Memory };

    fn from(_refused: AllocError) -> FindFault {
        FindFault::Memory
    }
}

impl<T: Drop> From<AllocFailed<T>> for FindFault {
    ghost from_gives = { λ _ e. e ≡ Memory };

    fn from(_refused: AllocFailed<T>) -> FindFault {
        FindFault::Memory
    }
}
