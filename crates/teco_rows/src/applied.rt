//! How a row takes a case to the one behind it.
ghost use Rattle.std.specs.Prelude.{◌≡◌, ◌∷◌, [], ◌==◌, ℕ, if◌then◌else◌, IfOk, OnOk, None, slice_index_or, length};
ghost use Rattle.std.specs.Prelude.{◌<◌, ◌+ℤ◌, ◌*ℤ◌, IfSome};
ghost use Rattle.std.specs.Prelude.{IsTrue, ◌↔◌};
ghost use Rattle.std.specs.List.{All};
ghost use Rattle.teco_linear.specs.Form.{Valuation, scale_value, value};
ghost use Rattle.teco_linear.specs.Implied.{Holds};
ghost use Rattle.teco_rows.specs.Rows.{sum_of, total, weight};
ghost use Rattle.teco_rows.specs.Cases.{Adds, Carries, IsAbout, IsBelow, IsOptionallyAbout, IsWhole};
ghost use Rattle.teco_rows.specs.Cases.{read_by, value_if};

use crate::case::{Case, Shape};
use crate::fault::RowFault;
use crate::row::{Clause, MultipleOf, Multiples, Of, RowStep};
use std::alloc::Global;
use teco_linear::{Form, LinearFault, Scale, Term};

/// The most places that the forms of a case may have.
pub const MAX_PLACES: usize = 65_536;

/// A copy of the form.
pub fn copied(form: &Form, alloc: Global) -> Result<Form, LinearFault>
    ensures { IfOk result (λ copy. (n : ℕ) (v : Valuation) → value copy n v ≡ value form.now n v) }
{
    form.copied(alloc)
}

// A copy of the form, if there is one.
fn copied_if(form: &Option<Form>, alloc: Global) -> Result<Option<Form>, LinearFault>
    ensures { IfOk result (λ copy. (n : ℕ) (v : Valuation)
        → value_if copy n v ≡ value_if form.now n v) }
{
    match form {
        Some(form) => Ok(Some(copied(form, alloc)?)),
        None => Ok(None),
    }
}

/// The form in a place, if there is one.
pub fn form_at(
    forms: &[Option<Form>],
    place: usize,
    alloc: Global,
) -> Result<Option<Form>, LinearFault>
    ensures { IfOk result (λ form. (n : ℕ) (v : Valuation)
        → value_if form n v ≡ value_if (slice_index_or forms.now place None) n v) }
{
    match forms.get(place) {
        Some(form) => copied_if(form, alloc),
        None => Ok(None),
    }
}

// The form of what a row takes a multiple of.
fn form_of(case: &Case, step: &RowStep, of: Of, alloc: Global) -> Result<Form, RowFault>
    ensures { IfOk result (λ form. (n : ℕ) (v : Valuation)
        → value form n v ≡ weight (read_by case.now step.now n v) of) }
{
    match of {
        Of::Was(mark) => {
            let place = step.here.measure(mark).place();
            match form_at(&case.forms, place, alloc)? {
                Some(form) => Ok(form),
                None => Ok(Form::zero(alloc)),
            }
        }
        Of::Given(index) => match step.given.get(index) {
            Some(form) => {
                let form = copied(form, alloc)?;
                Ok(form)
            }
            None => Ok(Form::zero(alloc)),
        },
        Of::Unknown(index) => match case.symbols.checked_add(index) {
            Some(symbol) => {
                let form = Form::symbol(symbol, alloc)?;
                Ok(form)
            }
            None => Err(RowFault::TooMany),
        },
    }
}

// The form of what a row takes a multiple of, where it stands in the case or is given.
fn standing<'a>(case: &'a Case, step: &'a RowStep, of: Of) -> Option<&'a Form>
    ensures { IfSome result (λ form. (n : ℕ) (v : Valuation)
        → value form.now n v ≡ weight (read_by case.now step.now n v) of) }
{
    match of {
        Of::Was(mark) => {
            let place = step.here.measure(mark).place();
            case.forms.get(place)?.as_ref()
        }
        Of::Given(index) => step.given.get(index),
        Of::Unknown(_) => None,
    }
}

// A multiple of what a row names.
fn multiple(
    case: &Case,
    step: &RowStep,
    scale: &Scale,
    of: Of,
    alloc: Global,
) -> Result<Form, RowFault>
    ensures { IfOk result (λ product. (n : ℕ) (v : Valuation)
        → value product n v ≡ scale_value scale.now n *ℤ weight (read_by case.now step.now n v) of) }
{
    if let Some(form) = standing(case, step, of) {
        let product = form.scaled(scale, alloc)?;
        return Ok(product);
    }
    let form = form_of(case, step, of, alloc)?;
    let product = form.scaled(scale, alloc)?;
    Ok(product)
}

// The form of a constant and multiples.
fn sum(
    case: &Case,
    step: &RowStep,
    constant: i64,
    parts: Multiples,
    alloc: Global,
) -> Result<Form, RowFault>
    ensures { IfOk result (λ form. (n : ℕ) (v : Valuation)
        → value form n v ≡ total (read_by case.now step.now n v) constant parts) }
{
    let (first, second, third, fourth) = parts;
    added(case, step, constant, &[first, second, third, fourth], alloc)
}

// The form of a constant and the multiples in a list.
fn added(
    case: &Case,
    step: &RowStep,
    constant: i64,
    parts: &[MultipleOf],
    alloc: Global,
) -> Result<Form, RowFault>
    ensures { IfOk result (λ form. (n : ℕ) (v : Valuation)
        → value form n v ≡ constant +ℤ sum_of (read_by case.now step.now n v) parts.now) }
{
    let mut sum = Form::constant(i128::from(constant), alloc)?;
    for (times, of) in parts {
        if *times == 0 {
            continue;
        }
        let scale = Scale {
            factor: i128::from(*times),
            power: 0,
        };
        let product = multiple(case, step, &scale, *of, alloc)?;
        sum = sum.add(&product, alloc)?;
    }
    Ok(sum)
}

// Whether a term has no symbol from a number on.
fn is_below(term: &Term, symbols: u32) -> bool
    ensures { IsTrue result ↔ IsBelow symbols term.now }
{
    match term.symbol {
        Some(symbol) => symbol < symbols,
        None => true,
    }
}

fn is_about(form: &Form, symbols: u32) -> bool
    ensures { IsTrue result ↔ IsAbout symbols form.now }
{
    form.terms().iter().all(|term| is_below(term, symbols))
}

fn is_optionally_about(form: &Option<Form>, symbols: u32) -> bool
    ensures { IsTrue result ↔ IsOptionallyAbout symbols form.now }
{
    match form {
        Some(form) => is_about(form, symbols),
        None => true,
    }
}

// Whether all forms of a case are about its symbols.
fn is_whole(case: &Case) -> bool
    ensures { IsTrue result ↔ IsWhole case.now }
{
    let symbols = case.symbols;
    case.forms
        .iter()
        .all(|form| is_optionally_about(form, symbols))
        && case.constraints.iter().all(|form| is_about(form, symbols))
}

// Whether all numbers that are given are forms of a case's symbols.
fn are_about(forms: &[Form], symbols: u32) -> bool
    ensures { IsTrue result ↔ All (IsAbout symbols) forms.now }
{
    forms.iter().all(|form| is_about(form, symbols))
}

// Makes the forms reach a place.
fn reach(forms: &mut Vec<Option<Form>>, place: usize) -> Result<(), RowFault>
    ensures kept { OnOk result ((k : ℕ)
        → slice_index_or forms.new.items k None ≡ slice_index_or forms.old.items k None) }
    ensures long { OnOk result (place < length forms.new.items) }
{
    if place >= MAX_PLACES {
        return Err(RowFault::TooMany);
    }
    while forms.len() <= place {
        forms.push(None)?;
    }
    Ok(())
}

/// Puts a form, or none, into a place.
pub fn put(forms: &mut Vec<Option<Form>>, place: usize, form: Option<Form>) -> Result<(), RowFault>
    ensures { OnOk result ((k : ℕ) → slice_index_or forms.new.items k None
        ≡ (if place == k then form else slice_index_or forms.old.items k None)) }
{
    reach(forms, place)?;
    forms[place] = form;
    Ok(())
}

/// Copies of the forms.
pub fn copied_forms(forms: &[Option<Form>], alloc: Global) -> Result<Vec<Option<Form>>, RowFault>
    ensures { IfOk result (λ copies. (n : ℕ) (v : Valuation) (k : ℕ)
        → value_if (slice_index_or copies.items k None) n v
        ≡ value_if (slice_index_or forms.now k None) n v) }
{
    let mut copies = Vec::with_capacity(alloc, forms.len())?;
    for form in forms {
        copies.push(copied_if(form, alloc)?)?;
    }
    Ok(copies)
}

/// Copies of the constraints.
pub fn copied_constraints(forms: &[Form], alloc: Global) -> Result<Vec<Form>, RowFault>
    ensures { IfOk result (λ copies. (n : ℕ) (v : Valuation)
        → All (Holds n v) forms.now → All (Holds n v) copies.items) }
{
    let mut copies = Vec::with_capacity(alloc, forms.len())?;
    for form in forms {
        copies.push(copied(form, alloc)?)?;
    }
    Ok(copies)
}

// The forms and constraints of a case that is being made.
#[derive(Drop)]
struct Draft {
    forms: Vec<Option<Form>>,
    constraints: Vec<Form>,
}

// What one clause of a row makes of the case behind it.
fn follow(
    draft: &mut Draft,
    case: &Case,
    step: &RowStep,
    clause: &Clause,
    alloc: Global,
) -> Result<(), RowFault>
    ensures { OnOk result (Adds case.now step.now (clause.now ∷ []) draft.old draft.new) }
{
    match clause {
        Clause::Sets(mark, constant, parts) => {
            let form = sum(case, step, *constant, *parts, alloc)?;
            let place = step.here.measure(*mark).place();
            put(&mut draft.forms, place, Some(form))?;
        }
        Clause::Drops(mark) => {
            let place = step.here.measure(*mark).place();
            put(&mut draft.forms, place, None)?;
        }
        Clause::Wants(constant, parts) => {
            let form = sum(case, step, *constant, *parts, alloc)?;
            draft.constraints.push(form)?;
        }
    }
    Ok(())
}

/// The case behind a row, with this shape. It is refused where a form of the case, or one that is
/// given, has a symbol that the case does not have.
pub fn applied(case: &Case, step: &RowStep, shape: Shape, alloc: Global) -> Result<Case, RowFault>
    ensures shape { IfOk result (λ after. after.shape ≡ shape) }
    ensures carries { IfOk result (λ after. Carries case.now step.now after) }
{
    let Some(symbols) = case.symbols.checked_add(step.unknowns) else {
        return Err(RowFault::TooMany);
    };
    if !is_whole(case) || !are_about(step.given, case.symbols) {
        return Err(RowFault::Linear(LinearFault::UnknownSymbol));
    }
    let forms = copied_forms(&case.forms, alloc)?;
    let constraints = copied_constraints(&case.constraints, alloc)?;
    let mut draft = Draft { forms, constraints };
    for clause in step.clauses {
        follow(&mut draft, case, step, clause, alloc)?;
    }
    Ok(Case {
        symbols,
        forms: draft.forms,
        constraints: draft.constraints,
        shape,
    })
}
