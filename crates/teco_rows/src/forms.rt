//! Forms of the measures of a state, and what is made of forms.
ghost use Rattle.std.specs.Prelude.{◌≡◌, ℕ, IfOk, IfSome, FitsSigned, ◌*ℤ◌, pos, length as list_length};
ghost use Rattle.std.specs.Prelude.{true};
ghost use Rattle.std.specs.Int.{w32};
ghost use Rattle.std.specs.List.{All};
ghost use Rattle.teco_linear.specs.Form.{Valuation, value, scale_value};
ghost use Rattle.teco_linear.specs.Implied.{Holds};
ghost use Rattle.teco_model.specs.Storage.{number_in, text_in};
ghost use Rattle.teco_model.specs.laws.Whole.{IsWhole};
ghost use Rattle.teco_rows.specs.Cases.{value_if};
ghost use Rattle.teco_rows.specs.States.{Point, IsTrueOf, single, measures_of};

use crate::applied::form_at;
use crate::case::Case;
use crate::fault::RowFault;
use crate::measure::{Family, Measure, Single};
use std::alloc::Global;
use teco_base::Reg;
use teco_linear::{Form, Scale};

/// The form of a measure, if the state has it.
pub fn measured(case: &Case, measure: Measure, alloc: Global) -> Result<Option<Form>, RowFault>
    ensures { IfOk result (λ form. (n : ℕ) (v : Valuation) (s : Point) → IsTrueOf n v case.now s
        → value_if form n v ≡ measures_of s measure) }
{
    let form = form_at(&case.forms, measure.place(), alloc)?;
    Ok(form)
}

/// The form of a measure that a state has once.
pub fn single(case: &Case, which: Single, alloc: Global) -> Result<Form, RowFault>
    ensures { IfOk result (λ form. (n : ℕ) (v : Valuation) (s : Point) → IsTrueOf n v case.now s
        → value form n v ≡ single s which) }
{
    match measured(case, Measure::One(which), alloc)? {
        Some(form) => Ok(form),
        None => Err(RowFault::TooMany),
    }
}

/// The form of the number of a register.
pub fn number(case: &Case, register: Reg, alloc: Global) -> Result<Form, RowFault>
    ensures { IfOk result (λ form. (n : ℕ) (v : Valuation) (s : Point) → IsTrueOf n v case.now s
        → IsWhole s.kept → value form n v ≡ number_in register s.kept) }
{
    let index = register.index() as u32;
    match measured(case, Measure::Each(Family::Number, index), alloc)? {
        Some(form) => Ok(form),
        None => Err(RowFault::TooMany),
    }
}

/// The form of the length of a register's text.
pub fn length(case: &Case, register: Reg, alloc: Global) -> Result<Form, RowFault>
    ensures { IfOk result (λ form. (n : ℕ) (v : Valuation) (s : Point) → IsTrueOf n v case.now s
        → IsWhole s.kept → value form n v ≡ pos (list_length (text_in register s.kept))) }
{
    let index = register.index() as u32;
    match measured(case, Measure::Each(Family::Length, index), alloc)? {
        Some(form) => Ok(form),
        None => Err(RowFault::TooMany),
    }
}

/// That a form fits 32 bits, as two conditions.
pub fn within_32_bits(form: &Form, alloc: Global) -> Result<Vec<Form>, RowFault>
    ensures { IfOk result (λ conditions. (n : ℕ) (v : Valuation)
        → All (Holds n v) conditions.items → FitsSigned w32 (value form.now n v)) }
{
    let least = Form::constant(-(1 << 31), alloc)?;
    let most = Form::constant((1 << 31) - 1, alloc)?;
    let mut conditions = Vec::new(alloc);
    conditions.push(form.sub(&least, alloc)?)?;
    conditions.push(most.sub(form, alloc)?)?;
    Ok(conditions)
}

/// The number that a form always is, if that is plain.
pub fn known(form: &Form) -> Option<i128>
    ensures { IfSome result (λ number. (n : ℕ) (v : Valuation) → value form.now n v ≡ number) }
{
    match form.terms() {
        [] => Some(0),
        [term] if term.symbol.is_none() && term.power == 0 => Some(term.coefficient),
        _ => None,
    }
}

/// Whether a form is always this number, as far as that is plain.
pub fn is_number(form: &Form, number: i128) -> bool
    ensures { result ≡ true → (n : ℕ) (v : Valuation) → value form.now n v ≡ number }
{
    match known(form) {
        Some(found) => found == number,
        None => false,
    }
}

/// The product, where one of the forms is a number.
pub fn product(left: &Form, right: &Form, alloc: Global) -> Result<Option<Form>, RowFault>
    ensures { IfOk result (λ form. IfSome form (λ form. (n : ℕ) (v : Valuation)
        → value form n v ≡ value left.now n v *ℤ value right.now n v)) }
{
    if let Some(number) = known(left) {
        return Ok(Some(right.scaled(&times(number), alloc)?));
    }
    match known(right) {
        Some(number) => Ok(Some(left.scaled(&times(number), alloc)?)),
        None => Ok(None),
    }
}

// What multiplies by a number.
fn times(number: i128) -> Scale
    ensures { (n : ℕ) → scale_value result n ≡ number }
{
    Scale {
        factor: number,
        power: 0,
    }
}
