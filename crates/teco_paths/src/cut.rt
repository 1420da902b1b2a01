//! Cut points.
ghost use Rattle.std.specs.Prelude.{◌≡◌, ℕ, IfOk, Some, None, false, true, is_some, slice_index_or, if◌then◌else◌};
ghost use Rattle.std.specs.Bool.{OnTrue};
ghost use Rattle.std.specs.List.{All};
ghost use Rattle.teco_linear.specs.Form.{Valuation, value, values};
ghost use Rattle.teco_linear.specs.Implied.{Holds};
ghost use Rattle.teco_rows.specs.Cases.{value_if};
ghost use Rattle.teco_paths.specs.Claims.{AreFilled, AreKnown, ArePresent, AreSymbols, ComesTo, IsCaseOf};
ghost use Rattle.teco_paths.specs.Claims.{filled_by};

use crate::facts::facts;
use crate::fault::PathFault;
use std::alloc::Global;
use teco_implied::is_so;
use teco_linear::Form;
use teco_model::Operator;
use teco_rows::applied::{copied_constraints, form_at};
use teco_rows::case::{Case, Shape};

/// A cut point: where it stands, the shape of a state there, which measures it has, by their places,
/// of which of these is told what always holds, and what is claimed: each symbol is the measure in its
/// place.
#[derive(Drop)]
pub struct CutState {
    pub number: usize,
    pub shape: Shape,
    pub present: Vec<bool>,
    pub told: Vec<bool>,
    pub claims: Vec<Form>,
}

/// A copy of a shape.
pub fn copied_shape(shape: &Shape, alloc: Global) -> Result<Shape, PathFault>
    ensures operators { IfOk result (λ copy. copy.operators.items ≡ shape.now.operators.items) }
    ensures iterations { IfOk result (λ copy. copy.iterations ≡ shape.now.iterations) }
    ensures pushes { IfOk result (λ copy. copy.pushes ≡ shape.now.pushes) }
{
    let mut operators = Vec::new(alloc);
    operators.extend_from_slice(&shape.operators)?;
    Ok(Shape {
        operators,
        iterations: shape.iterations,
        pushes: shape.pushes,
    })
}

// The symbol of a place, if it is marked.
fn symbol_at(is_present: bool, place: usize, alloc: Global) -> Result<Option<Form>, PathFault>
    ensures { IfOk result (λ form. (n : ℕ) (v : Valuation)
        → value_if form n v ≡ (if is_present then Some (v place) else None)) }
{
    if !is_present {
        return Ok(None);
    }
    match u32::try_from(place) {
        Ok(symbol) => Ok(Some(Form::symbol(symbol, alloc)?)),
        Err(_) => Err(PathFault::Unknown),
    }
}

// The symbols of the places that are marked.
fn symbols_of(present: &[bool], alloc: Global) -> Result<Vec<Option<Form>>, PathFault>
    ensures { IfOk result (λ forms. AreSymbols present.now forms.items) }
{
    let mut forms = Vec::new(alloc);
    for place in 0..present.len() {
        forms.push(symbol_at(present[place], place, alloc)?)?;
    }
    Ok(forms)
}

// What is claimed at a cut point, and what always holds.
fn known(size: &[u64], cut: &CutState, alloc: Global) -> Result<Vec<Form>, PathFault>
    ensures { IfOk result (λ all. AreKnown size.now cut.now all.items) }
{
    let mut all = copied_constraints(&cut.claims, alloc)?;
    let mut facts = facts(size, &cut.told, alloc)?;
    all.append(&mut facts)?;
    Ok(all)
}

/// The case of the states that are as a cut point says: each measure is a symbol.
pub fn case_of(size: &[u64], cut: &CutState, alloc: Global) -> Result<Case, PathFault>
    ensures { IfOk result (λ case. IsCaseOf size.now cut.now case) }
{
    let Ok(symbols) = u32::try_from(cut.present.len()) else {
        return Err(PathFault::Unknown);
    };
    let forms = symbols_of(&cut.present, alloc)?;
    let constraints = known(size, cut, alloc)?;
    let shape = copied_shape(&cut.shape, alloc)?;
    Ok(Case {
        symbols,
        forms,
        constraints,
        shape,
    })
}

// Whether two operators are the same.
fn is_same_operator(one: Operator, other: Operator) -> bool
    ensures { OnTrue result (one ≡ other) }
{
    match one {
        Operator::Plus => matches!(other, Operator::Plus),
        Operator::Minus => matches!(other, Operator::Minus),
        Operator::Times => matches!(other, Operator::Times),
        Operator::Over => matches!(other, Operator::Over),
        Operator::And => matches!(other, Operator::And),
        Operator::Or => matches!(other, Operator::Or),
    }
}

// Whether the same waits at two levels.
fn is_same_wait(one: Option<Operator>, other: Option<Operator>) -> bool
    ensures { OnTrue result (one ≡ other) }
{
    match (one, other) {
        (None, None) => true,
        (Some(one), Some(other)) => is_same_operator(one, other),
        _ => false,
    }
}

// Whether the same operators wait.
fn are_same_waits(one: &[Option<Operator>], other: &[Option<Operator>]) -> bool
    ensures { OnTrue result (one.now ≡ other.now) }
{
    if one.len() != other.len() {
        return false;
    }
    for at in 0..one.len() {
        if !is_same_wait(one[at], other[at]) {
            return false;
        }
    }
    true
}

/// Whether two shapes are the same.
pub fn is_same_shape(one: &Shape, other: &Shape) -> bool
    ensures operators { OnTrue result (one.now.operators.items ≡ other.now.operators.items) }
    ensures iterations { OnTrue result (one.now.iterations ≡ other.now.iterations) }
    ensures pushes { OnTrue result (one.now.pushes ≡ other.now.pushes) }
{
    are_same_waits(&one.operators, &other.operators)
        && one.iterations == other.iterations
        && one.pushes == other.pushes
}

// Whether a place is marked just where a form is there.
fn is_marked(present: &[bool], forms: &[Option<Form>], place: usize) -> bool
    ensures { OnTrue result
        (slice_index_or present.now place false ≡ is_some (slice_index_or forms.now place None)) }
{
    let is_marked = match present.get(place) {
        Some(is_present) => *is_present,
        None => false,
    };
    let is_there = match forms.get(place) {
        Some(form) => form.is_some(),
        None => false,
    };
    is_marked == is_there
}

// Whether just the places of forms are marked.
fn are_marked(present: &[bool], forms: &[Option<Form>]) -> bool
    ensures { OnTrue result (ArePresent present.now forms.now) }
{
    let places = present.len().max(forms.len());
    for place in 0..places {
        if !is_marked(present, forms, place) {
            return false;
        }
    }
    true
}

// The form in a place, and 0 where there is none.
fn filled(forms: &[Option<Form>], place: usize, alloc: Global) -> Result<Form, PathFault>
    ensures { IfOk result (λ form. (n : ℕ) (v : Valuation)
        → value form n v ≡ value (filled_by (slice_index_or forms.now place None)) n v) }
{
    match form_at(forms, place, alloc)? {
        Some(form) => Ok(form),
        None => Ok(Form::zero(alloc)),
    }
}

/// The forms of a case, and 0 where there is none.
pub fn filled_forms(forms: &[Option<Form>], alloc: Global) -> Result<Vec<Form>, PathFault>
    ensures { IfOk result (λ all. AreFilled forms.now all.items) }
{
    let mut all = Vec::new(alloc);
    for place in 0..forms.len() {
        all.push(filled(forms, place, alloc)?)?;
    }
    Ok(all)
}

// Whether a case implies a claim of its measures.
fn is_claim_so(case: &Case, forms: &[Form], claim: &Form, alloc: Global) -> Result<bool, PathFault>
    ensures { IfOk result (λ answer. OnTrue answer ((n : ℕ) (v : Valuation)
        → All (Holds n v) case.now.constraints.items → Holds n (values forms.now n v) claim.now)) }
{
    let target = claim.substitute(forms, alloc)?;
    let is_claimed = is_so(case, &target, alloc)?;
    Ok(is_claimed)
}

// Whether it implies all claims.
fn are_claims_so(
    case: &Case,
    forms: &[Form],
    claims: &[Form],
    alloc: Global,
) -> Result<bool, PathFault>
    ensures { IfOk result (λ answer. OnTrue answer ((n : ℕ) (v : Valuation)
        → All (Holds n v) case.now.constraints.items
        → All (Holds n (values forms.now n v)) claims.now)) }
{
    for claim in claims {
        if !is_claim_so(case, forms, claim, alloc)? {
            return Ok(false);
        }
    }
    Ok(true)
}

/// Whether each state that a case describes is as a cut point says.
pub fn comes_to(case: &Case, cut: &CutState, alloc: Global) -> Result<bool, PathFault>
    ensures { IfOk result (λ answer. OnTrue answer (ComesTo case.now cut.now)) }
{
    if !is_same_shape(&case.shape, &cut.shape) || !are_marked(&cut.present, &case.forms) {
        return Ok(false);
    }
    let forms = filled_forms(&case.forms, alloc)?;
    are_claims_so(case, &forms, &cut.claims, alloc)
}
