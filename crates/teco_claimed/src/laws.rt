//! The law of checked certificates.
ghost use Rattle.teco_claimed.specs.Claimed.{CheckedMacrosEnd};

use teco_law_runs::laws::expansions_are_linked;
use teco_paths::laws::certain_ends;

/// Each run of a macro ends in time, and without a code, as its checked certificate says.
pub fn checked_macros_end()
    ensures { CheckedMacrosEnd }
{
    expansions_are_linked();
    certain_ends();
}
