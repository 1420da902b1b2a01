//! Macros that are not accepted, with what was found of them.
ghost use Rattle.std.specs.Prelude.{◌≡◌};

use crate::failing::Unclaimed;
use teco_verifier::RefusalReason as Why;
use teco_verify::Refusal;
use teco_witness::Witness;

/// Why a macro or a certificate is not accepted.
#[derive(Drop)]
pub struct Unaccepted {
    pub refusal: Refusal,
    /// Why there are no claims, where they were looked for, and a small world on which the macro fails.
    pub unclaimed: Option<Unclaimed>,
}

impl From<Refusal> for Unaccepted {
    ghost from_gives = { λ refusal unaccepted. unaccepted.refusal ≡ refusal };

    fn from(refusal: Refusal) -> Unaccepted {
        Unaccepted {
            refusal,
            unclaimed: None,
        }
    }
}

impl Unaccepted {
    /// Is the macro refused since it writes a text of its library?
    pub fn is_written(&self) -> bool {
        matches!(
            self.refusal,
            Refusal::No {
                why: Why::Written,
                ..
            }
        )
    }

    /// A small world on which the macro fails, if one was found.
    pub fn witness(&self) -> Option<&Witness> {
        self.unclaimed.as_ref()?.witness.as_ref()
    }
}
