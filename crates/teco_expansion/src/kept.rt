//! Where elements jump ahead, kept by their places.
ghost use Rattle.std.specs.Prelude.{◌≡◌, ℕ, List, All, IfSome, OnOk, Some};
ghost use Rattle.teco_model.specs.Macros.{Library, macro};
ghost use Rattle.teco_expansion.specs.Scanned.{text_in, IsKeptOf};
ghost use Rattle.teco_scan.specs.Skips.{IsStepOf};

use std::alloc::AllocError;
use teco_scan::Step;

/// A step of the text of a register, by the place of that.
#[derive(Clone, Copy)]
pub struct KeptStep {
    pub register: usize,
    pub step: Step,
}

/// Keeps the steps of a register's text.
pub fn keep_steps(
    kept: &mut Vec<KeptStep>,
    register: usize,
    steps: &[Step],
) -> Result<(), AllocError>
    ensures { OnOk result ((library : Library) (text : List ℕ)
        → macro library register ≡ Some text →
        All (IsStepOf text) steps.now → All (IsKeptOf library) kept.old.items
        → All (IsKeptOf library) kept.new.items) }
{
    for step in steps {
        kept.push(KeptStep {
            register,
            step: *step,
        })?;
    }
    Ok(())
}

/// The step of the element at a place, if that is kept. Registers stand in their order, and the
/// last place of each first, so that the time grows as the number of digits of their number does.
pub fn kept_at(kept: &[KeptStep], register: usize, place: usize) -> Option<Step>
    ensures place { IfSome result (λ step. step.place ≡ place) }
    ensures step { (library : Library) → All (IsKeptOf library) kept.now
        → IfSome result (IsStepOf (text_in library register)) }
{
    let number = kept.partition_point(|one| {
        one.register < register || (one.register == register && one.step.place as usize > place)
    });
    let found = kept.get(number)?;
    if found.register == register && found.step.place as usize == place {
        Some(found.step)
    } else {
        None
    }
}
