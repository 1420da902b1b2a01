//! What is shown of how much is held is kept in the case, so that it is shown once where that stays the same.
ghost use Rattle.std.specs.Prelude.{IfOk};
ghost use Rattle.teco_paths.specs.Steps.{IsSharper};

use crate::course::{MacroGraph, form_of};
use crate::fault::PathFault;
use crate::light::is_among;
use crate::sharp::with_constraint;
use std::alloc::Global;
use teco_implied::is_so;
use teco_linear::Form;
use teco_rows::case::Case;
use teco_rows::forms::single;
use teco_rows::measure::Single;

// The case with one constraint more, if it is a new one and is shown.
fn with_shown(case: Case, form: Form, alloc: Global) -> Result<Case, PathFault>
    ensures { IfOk result (λ more. IsSharper case more) }
{
    if is_among(&form, &case.constraints) {
        return Ok(case);
    }
    let is_shown = is_so(&case, &form, alloc)?;
    if !is_shown {
        return Ok(case);
    }
    with_constraint(case, form)
}

// How much more may be held than a case says.
fn room_left(size: &[u64], case: &Case, alloc: Global) -> Result<Form, PathFault> {
    let most = form_of(size, alloc)?;
    let held = single(case, Single::Held, alloc)?;
    let left = most.sub(&held, alloc)?;
    Ok(left)
}

// By how much more it may be than at the entry.
fn growth_left(grows: &[u64], case: &Case, alloc: Global) -> Result<Form, PathFault> {
    let more = form_of(grows, alloc)?;
    let before = single(case, Single::EntryHeld, alloc)?;
    let most = before.add(&more, alloc)?;
    let held = single(case, Single::Held, alloc)?;
    let left = most.sub(&held, alloc)?;
    Ok(left)
}

// The case with what is shown of how much more is held than at the entry.
fn with_growth(case: Case, grows: Option<&[u64]>, alloc: Global) -> Result<Case, PathFault>
    ensures { IfOk result (λ more. IsSharper case more) }
{
    match grows {
        Some(grows) => {
            let left = growth_left(grows, &case, alloc)?;
            with_shown(case, left, alloc)
        }
        None => Ok(case),
    }
}

/// The case with what is shown of how much is held: that it is within the size that is claimed, and
/// how much more it is than at the entry, if that is claimed.
pub fn with_room(course: &MacroGraph<'_>, case: Case, alloc: Global) -> Result<Case, PathFault>
    ensures { IfOk result (λ more. IsSharper case more) }
{
    let left = room_left(course.size, &case, alloc)?;
    let fitting = with_shown(case, left, alloc)?;
    with_growth(fitting, course.grows, alloc)
}
