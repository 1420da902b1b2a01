//! Why a word asks for no policy.
ghost use Rattle.std.specs.Prelude.{◌≡◌};
ghost use Rattle.teco_policy.specs.Refusals.{refusal_of};
ghost use Rattle.teco_policy.specs.declared.refusal.PolicyRefusal.TheVariants.{Memory};

use std::alloc::AllocError;
use teco_find::FindFault;
use thiserror::Error;

/// Why a word asks for no policy.
#[derive(Clone, Copy, Debug, PartialEq, Error)]
pub enum PolicyRefusal {
    /// It is none of the words that there are.
    #[error("no such policy")]
    Word,
    /// No search text stands behind `others=`.
    #[error("others= needs a search text")]
    NoPattern,
    /// The search text cannot be read.
    #[error("a search text that cannot be read")]
    IllFormed,
    /// The search text names a register.
    #[error("a search text with the text of a register")]
    Register,
    /// No number of lines, or one that is too large.
    #[error("a number of lines is needed, as 10 or 5%")]
    Number,
    /// More than 100%.
    #[error("at most 100% of the lines can change")]
    Percent,
    /// A growth was refused.
    #[error("out of memory")]
    Memory,
}

impl From<FindFault> for PolicyRefusal {
    ghost from_gives = { λ fault refusal. refusal ≡ refusal_of fault };

    fn from(fault: FindFault) -> PolicyRefusal {
        match fault {
            FindFault::Ice | FindFault::Iqn => PolicyRefusal::IllFormed,
            FindFault::Memory => PolicyRefusal::Memory,
        }
    }
}

impl From<AllocError> for PolicyRefusal {
    ghost from_gives = { λ _ refusal. refusal ≡ Memory };

    fn from(_refused: AllocError) -> PolicyRefusal {
        PolicyRefusal::Memory
    }
}
