//! A list of changes, each once.
ghost use Rattle.std.specs.Prelude.{◌≡◌, ◌++◌, All, Contains, IfOk};
ghost use Rattle.teco_told.specs.Growing.{Grows};

use crate::same::is_listed;
use std::alloc::AllocError;
use teco_changes::Change;

// Adds a change, if it is not listed.
#[tactic(auto, using(crate::proofs::Grown::same_stays, crate::proofs::Grown::pushed_is, crate::proofs::Grown::stays))]
fn add(changes: &mut Vec<Change>, change: Change) -> Result<(), AllocError>
    ensures has { IfOk result (λ done. Contains changes.new.items change) }
    ensures grows { Grows changes.old.items changes.new.items }
{
    if !is_listed(changes.as_slice(), &change) {
        changes.push(change)?;
    }
    Ok(())
}

/// Adds those that are not listed.
#[tactic(auto, using(crate::proofs::Grown::stays, crate::proofs::Grown::all_later, crate::proofs::Grown::grows_on))]
pub(crate) fn add_all(changes: &mut Vec<Change>, told: Vec<Change>) -> Result<(), AllocError>
    ensures has { IfOk result (λ done. All (Contains changes.new.items) told.items) }
    ensures grows { Grows changes.old.items changes.new.items }
{
    for change in told {
        add(changes, change)?;
    }
    Ok(())
}
