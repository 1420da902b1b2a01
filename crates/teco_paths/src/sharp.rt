//! What is known of a case besides.
ghost use Rattle.std.specs.Prelude.{◌≡◌, ◌-ℤ◌, ℕ, pos, IfOk, IfSome};
ghost use Rattle.teco_linear.specs.Form.{Valuation, value};
ghost use Rattle.teco_paths.specs.Steps.{IsSharper, IsWith};
ghost use Rattle.teco_rows.specs.declared.case.Case.{Case};
ghost use Rattle.teco_rows.specs.declared.measure.Single.TheVariants.{Pointer};
ghost use Rattle.teco_rows.specs.States.{Point, IsTrueOf, single as measure};

use crate::fault::PathFault;
use crate::light::is_among;
use std::alloc::Global;
use teco_implied::is_so_nearby;
use teco_linear::Form;
use teco_rows::case::Case;
use teco_rows::forms::single;
use teco_rows::measure::Single;

/// The case with one constraint more.
pub fn with_constraint(case: Case, form: Form) -> Result<Case, PathFault>
    ensures { IfOk result (λ more. IsWith case form more) }
{
    let Case {
        symbols,
        forms,
        mut constraints,
        shape,
    } = case;
    constraints.push(form)?;
    Ok(Case {
        symbols,
        forms,
        constraints,
        shape,
    })
}

/// How far one form is beyond another, less 1.
pub fn beyond(form: &Form, other: &Form, alloc: Global) -> Result<Form, PathFault>
    ensures { IfOk result (λ more. (n : ℕ) (v : Valuation)
        → value more n v ≡ value form.now n v -ℤ value other.now n v -ℤ pos 1) }
{
    let one = Form::constant(1, alloc)?;
    let next = other.add(&one, alloc)?;
    let more = form.sub(&next, alloc)?;
    Ok(more)
}

// How far a measure is beyond the pointer, less 1.
fn beyond_pointer(case: &Case, which: Single, alloc: Global) -> Result<Form, PathFault>
    ensures { IfOk result (λ more. (n : ℕ) (v : Valuation) (s : Point) → IsTrueOf n v case.now s
        → value more n v ≡ measure s which -ℤ measure s Pointer -ℤ pos 1) }
{
    let pointer = single(case, Single::Pointer, alloc)?;
    let form = single(case, which, alloc)?;
    beyond(&form, &pointer, alloc)
}

// That the line's end is behind the pointer, where the pointer is known to be in front of the end of
// the buffer, and the case does not say it yet.
fn line_goes_on(case: &Case, alloc: Global) -> Result<Option<Form>, PathFault>
    ensures { IfOk result (λ found. IfSome found (λ more. (sharp : Case)
        → IsWith case.now more sharp → IsSharper case.now sharp)) }
{
    let more = beyond_pointer(case, Single::LineEnd, alloc)?;
    if is_among(&more, &case.constraints) {
        return Ok(None);
    }
    let ahead = beyond_pointer(case, Single::Size, alloc)?;
    if is_so_nearby(case, &ahead, alloc)? {
        Ok(Some(more))
    } else {
        Ok(None)
    }
}

/// The case where a line has its characters: where the pointer is in front of the end of the
/// buffer, the line's end is behind the pointer.
pub fn sharpened(case: Case, alloc: Global) -> Result<Case, PathFault>
    ensures { IfOk result (λ sharp. IsSharper case sharp) }
{
    match line_goes_on(&case, alloc)? {
        Some(more) => with_constraint(case, more),
        None => Ok(case),
    }
}
