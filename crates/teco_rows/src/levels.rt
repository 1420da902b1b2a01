//! What becomes of pending arguments.
ghost use Rattle.std.specs.Prelude.{◌≡◌, ◌∷◌, [], length, ℕ, IfOk, IfSome, slice_index_or, FitsSigned, ◌*ℤ◌, pos};
ghost use Rattle.std.specs.Prelude.{true, unwrap_or};
ghost use Rattle.std.specs.Int.{w32};
ghost use Rattle.std.specs.List.{All};
ghost use Rattle.teco_linear.specs.Form.{Valuation, value, scale_value};
ghost use Rattle.teco_linear.specs.Implied.{Holds};
ghost use Rattle.teco_rows.specs.Cases.{value_if};
ghost use Rattle.teco_rows.specs.Foretold.{Gives, IsAllowed, IsOne, IsValued, IsWrapped, Makes, Values, Wraps};
ghost use Rattle.teco_rows.specs.Foretold.{GivesAny, IsMaskOf, IsMasked, is_over};
ghost use Rattle.teco_rows.specs.Foretold.{AreTwo, Divides, IsBelowZero, IsDivided, IsDivisor, IsFromZero, Quotients};
ghost use Rattle.teco_rows.specs.States.{Point, IsShape, IsTrueOf, IsLast, IsLed, WaitsFor, each, single};
ghost use Rattle.teco_rows.specs.States.{measures_of};

use crate::applied::{applied, copied};
use crate::case::{Case, Shape};
use crate::fault::RowFault;
use crate::forms::{known, measured, product, within_32_bits};
use crate::measure::{Family, Measure, Single};
use crate::outcomes::Outcomes;
use crate::row::{Clause, Mark, MultipleOf, Of, Places, RowStep};
use std::alloc::Global;
use teco_linear::Form;
use teco_model::Operator;

/// No multiple.
pub const NO: MultipleOf = (0, Of::Given(0));

const STEPS: Mark = Mark::One(Single::Steps);

pub const FIRST: Mark = Mark::Here(Family::First);

pub const VALUE: Mark = Mark::Here(Family::Value);

pub const STEP: Clause = Clause::Sets(STEPS, 1, ((1, Of::Was(STEPS)), NO, NO, NO));

// A number is given.
const GIVES: [Clause; 2] = [
    STEP,
    Clause::Sets(VALUE, 0, ((1, Of::Given(0)), NO, NO, NO)),
];

// A number of 32 bits is given that is not known.
const WRAPS: [Clause; 4] = [
    STEP,
    Clause::Sets(VALUE, 0, ((1, Of::Unknown(0)), NO, NO, NO)),
    Clause::Wants(1 << 31, ((1, Of::Unknown(0)), NO, NO, NO)),
    Clause::Wants((1 << 31) - 1, ((-1, Of::Unknown(0)), NO, NO, NO)),
];

// A number is given that has no bits but those of one that is known.
const MASKS: [Clause; 4] = [
    STEP,
    Clause::Sets(VALUE, 0, ((1, Of::Unknown(0)), NO, NO, NO)),
    Clause::Wants(0, ((1, Of::Unknown(0)), NO, NO, NO)),
    Clause::Wants(0, ((1, Of::Given(0)), (-1, Of::Unknown(0)), NO, NO)),
];

// The places at hand where an element is about the innermost level.
pub fn at_level(case: &Case) -> Result<Places, RowFault>
    ensures { IfOk result (λ here. (s : Point) → IsShape case.now.shape s → here.level ≡ length s.arguments.outer) }
{
    let Some(level) = case.shape.operators.len().checked_sub(1) else {
        return Err(RowFault::TooMany);
    };
    match u32::try_from(level) {
        Ok(level) => Ok(Places {
            register: 0,
            iteration: 0,
            push: 0,
            level,
        }),
        Err(_) => Err(RowFault::TooMany),
    }
}

/// A copy of the shape, with this operator at the innermost level.
pub fn with_operator(
    shape: &Shape,
    operator: Option<Operator>,
    alloc: Global,
) -> Result<Shape, RowFault>
    ensures operators { IfOk result (λ after. IsLast operator shape.now.operators.items after.operators.items) }
    ensures iterations { IfOk result (λ after. after.iterations ≡ shape.now.iterations) }
    ensures pushes { IfOk result (λ after. after.pushes ≡ shape.now.pushes) }
{
    let mut operators = Vec::new(alloc);
    operators.extend_from_slice(&shape.operators)?;
    let _last = operators.pop();
    operators.push(operator)?;
    Ok(Shape {
        operators,
        iterations: shape.iterations,
        pushes: shape.pushes,
    })
}

// The operator that waits at the innermost level.
pub fn waiting(case: &Case) -> Option<Operator>
    ensures { (s : Point) → IsShape case.now.shape s → result ≡ s.arguments.level.operator }
{
    let operators = &case.shape.operators;
    match operators.last() {
        Some(operator) => *operator,
        None => None,
    }
}

// The case behind a row, with this operator at the innermost level.
pub fn led(
    case: &Case,
    step: &RowStep,
    operator: Option<Operator>,
    alloc: Global,
) -> Result<Case, RowFault>
    ensures { IfOk result (λ after. IsLed case.now step.now operator after) }
{
    let shape = with_operator(&case.shape, operator, alloc)?;
    applied(case, step, shape, alloc)
}

/// What comes of an element where one case does.
pub fn one(case: Case, conditions: Vec<Form>, alloc: Global) -> Result<Outcomes, RowFault>
    ensures { IfOk result (λ all. IsOne conditions.items case all) }
{
    let mut cases = Vec::new(alloc);
    cases.push(case)?;
    Ok(Outcomes {
        conditions,
        guarded: Vec::new(alloc),
        cases,
        away: Vec::new(alloc),
    })
}

// What comes of an element where one of two cases does.
fn two(
    first: Case,
    second: Case,
    conditions: Vec<Form>,
    alloc: Global,
) -> Result<Outcomes, RowFault>
    ensures { IfOk result (λ all. AreTwo conditions.items first second all) }
{
    let mut cases = Vec::new(alloc);
    cases.push(first)?;
    cases.push(second)?;
    Ok(Outcomes {
        conditions,
        guarded: Vec::new(alloc),
        cases,
        away: Vec::new(alloc),
    })
}

/// The form of a value that is pending at the innermost level, if there is one.
pub fn pending(case: &Case, family: Family, alloc: Global) -> Result<Option<Form>, RowFault>
    ensures { IfOk result (λ form. (n : ℕ) (v : Valuation) (s : Point) → IsTrueOf n v case.now s
        → value_if form n v ≡ each s family (length s.arguments.outer)) }
{
    let here = at_level(case)?;
    measured(case, Measure::Each(family, here.level), alloc)
}

/// The form of the value that an operator takes on its left: the pending one, or 0.
pub fn left_value(case: &Case, alloc: Global) -> Result<Form, RowFault>
    ensures { IfOk result (λ form. (n : ℕ) (v : Valuation) (s : Point) → IsTrueOf n v case.now s
        → value form n v ≡ unwrap_or s.arguments.level.value (pos 0)) }
{
    match pending(case, Family::Value, alloc)? {
        Some(value) => Ok(value),
        None => Ok(Form::zero(alloc)),
    }
}

/// What an operator makes of two numbers before it is taken into 32 bits, where that is a form.
pub fn made(
    left: &Form,
    operator: Operator,
    right: &Form,
    alloc: Global,
) -> Result<Option<Form>, RowFault>
    ensures { IfOk result (λ form. IfSome form (λ form. Makes left.now operator right.now form)) }
{
    match operator {
        Operator::Plus => Ok(Some(left.add(right, alloc)?)),
        Operator::Minus => Ok(Some(left.sub(right, alloc)?)),
        Operator::Times => {
            let form = product(left, right, alloc)?;
            Ok(form)
        }
        Operator::Over | Operator::And | Operator::Or => Ok(None),
    }
}

// The case where the value at the innermost level is a form, and no operator waits.
fn valued(case: &Case, form: &[Form], alloc: Global) -> Result<Case, RowFault>
    ensures { IfOk result (λ after. IsValued case.now (slice_index_or form.now 0 []) after) }
{
    let step = RowStep {
        clauses: &GIVES,
        here: at_level(case)?,
        given: form,
        unknowns: 0,
    };
    led(case, &step, None, alloc)
}

// The case where that value is some number of 32 bits.
fn wrapped(case: &Case, alloc: Global) -> Result<Case, RowFault>
    ensures { IfOk result (λ after. IsWrapped case.now after) }
{
    let step = RowStep {
        clauses: &WRAPS,
        here: at_level(case)?,
        given: &[],
        unknowns: 1,
    };
    led(case, &step, None, alloc)
}

// A number is given where an operator waits: what it makes is a form, if that fits 32 bits.
fn give_made(case: &Case, form: Form, alloc: Global) -> Result<Outcomes, RowFault>
    ensures { IfOk result (λ all. Values form case.now all) }
{
    let conditions = within_32_bits(&form, alloc)?;
    let after = valued(case, &[form], alloc)?;
    one(after, conditions, alloc)
}

// What an operator can be applied to: what is divided by is at least 1.
fn allowed(operator: Operator, number: &Form, alloc: Global) -> Result<Vec<Form>, RowFault>
    ensures { IfOk result (λ conditions. (n : ℕ) (v : Valuation)
        → All (Holds n v) conditions.items → IsAllowed operator (value number.now n v)) }
{
    let mut conditions = Vec::new(alloc);
    match operator {
        Operator::Over => {
            let least = Form::constant(1, alloc)?;
            conditions.push(number.sub(&least, alloc)?)?;
            Ok(conditions)
        }
        _ => Ok(conditions),
    }
}

// The case where that value is some number from 0 to a form.
fn masked(case: &Case, mask: &[Form], alloc: Global) -> Result<Case, RowFault>
    ensures { IfOk result (λ after. IsMasked case.now (slice_index_or mask.now 0 []) after) }
{
    let step = RowStep {
        clauses: &MASKS,
        here: at_level(case)?,
        given: mask,
        unknowns: 1,
    };
    led(case, &step, None, alloc)
}

// Whether the bits of a number are taken that is known, and is one of 32 bits from 0 on.
fn is_mask(operator: Operator, number: &Form) -> bool
    ensures { result ≡ true → IsMaskOf operator number.now }
{
    match operator {
        Operator::And => match known(number) {
            Some(mask) => mask >= 0 && mask < 1 << 31,
            None => false,
        },
        _ => false,
    }
}

// Of any number no more is left than that.
fn give_masked(
    case: &Case,
    operator: Operator,
    number: &Form,
    alloc: Global,
) -> Result<Outcomes, RowFault>
    requires { IsMaskOf operator number.now }
    ensures { IfOk result (λ all. Wraps operator number.now case.now all) }
{
    let mask = copied(number, alloc)?;
    let after = masked(case, &[mask], alloc)?;
    one(after, Vec::new(alloc), alloc)
}

// Or it is some number.
fn give_wrapped(
    case: &Case,
    operator: Operator,
    number: &Form,
    alloc: Global,
) -> Result<Outcomes, RowFault>
    ensures { IfOk result (λ all. Wraps operator number.now case.now all) }
{
    if is_mask(operator, number) {
        return give_masked(case, operator, number, alloc);
    }
    let conditions = allowed(operator, number, alloc)?;
    let after = wrapped(case, alloc)?;
    one(after, conditions, alloc)
}

// The case where that value is the quotient of a form from 0 on by a number.
fn divided_from_zero(
    case: &Case,
    dividend: &[Form],
    by: i64,
    alloc: Global,
) -> Result<Case, RowFault>
    requires { IsDivisor by }
    ensures { IfOk result (λ after.
        IsDivided IsFromZero by case.now (slice_index_or dividend.now 0 []) after) }
{
    let clauses = [
        STEP,
        Clause::Sets(VALUE, 0, ((1, Of::Unknown(0)), NO, NO, NO)),
        Clause::Wants(0, ((1, Of::Given(0)), NO, NO, NO)),
        Clause::Wants(0, ((1, Of::Unknown(0)), NO, NO, NO)),
        Clause::Wants(0, ((1, Of::Given(0)), (-by, Of::Unknown(0)), NO, NO)),
        Clause::Wants(by - 1, ((-1, Of::Given(0)), (by, Of::Unknown(0)), NO, NO)),
    ];
    let step = RowStep {
        clauses: &clauses,
        here: at_level(case)?,
        given: dividend,
        unknowns: 1,
    };
    led(case, &step, None, alloc)
}

// And where it is that of a form below 0, which is rounded up.
fn divided_below_zero(
    case: &Case,
    dividend: &[Form],
    by: i64,
    alloc: Global,
) -> Result<Case, RowFault>
    requires { IsDivisor by }
    ensures { IfOk result (λ after.
        IsDivided IsBelowZero by case.now (slice_index_or dividend.now 0 []) after) }
{
    let clauses = [
        STEP,
        Clause::Sets(VALUE, 0, ((1, Of::Unknown(0)), NO, NO, NO)),
        Clause::Wants(-1, ((-1, Of::Given(0)), NO, NO, NO)),
        Clause::Wants(0, ((-1, Of::Unknown(0)), NO, NO, NO)),
        Clause::Wants(0, ((-1, Of::Given(0)), (by, Of::Unknown(0)), NO, NO)),
        Clause::Wants(by - 1, ((1, Of::Given(0)), (-by, Of::Unknown(0)), NO, NO)),
    ];
    let step = RowStep {
        clauses: &clauses,
        here: at_level(case)?,
        given: dividend,
        unknowns: 1,
    };
    led(case, &step, None, alloc)
}

// The number that is divided by, if that is known, from 1 on, and not great.
fn known_divisor(operator: Operator, number: &Form) -> Option<i64>
    ensures { IfSome result (λ by. Divides operator number.now by) }
{
    let Operator::Over = operator else {
        return None;
    };
    let by = known(number)?;
    if by >= 1 && by <= 1 << 24 {
        return Some(by as i64);
    }
    None
}

// A form that fits 32 bits is divided by a number: the quotient is rounded toward zero.
fn give_quotient(case: &Case, left: Form, by: i64, alloc: Global) -> Result<Outcomes, RowFault>
    requires { IsDivisor by }
    ensures { IfOk result (λ all. Quotients left by case.now all) }
{
    let conditions = within_32_bits(&left, alloc)?;
    let dividend = [left];
    let from_zero = divided_from_zero(case, &dividend, by, alloc)?;
    let below_zero = divided_below_zero(case, &dividend, by, alloc)?;
    two(from_zero, below_zero, conditions, alloc)
}

// A number is given where nothing waits.
fn give_alone(case: &Case, number: Form, alloc: Global) -> Result<Outcomes, RowFault>
    requires { WaitsFor None case.now }
    ensures { IfOk result (λ all. Gives number case.now all) }
{
    let after = valued(case, &[number], alloc)?;
    one(after, Vec::new(alloc), alloc)
}

// A number is given where an operator waits.
fn give_to(
    case: &Case,
    operator: Operator,
    number: &Form,
    may_wrap: bool,
    alloc: Global,
) -> Result<Outcomes, RowFault>
    requires { WaitsFor (Some operator) case.now }
    ensures { IfOk result (λ all. Gives number.now case.now all) }
{
    if may_wrap {
        return give_wrapped(case, operator, number, alloc);
    }
    let left = left_value(case, alloc)?;
    if let Some(by) = known_divisor(operator, number) {
        return give_quotient(case, left, by, alloc);
    }
    match made(&left, operator, number, alloc)? {
        Some(form) => give_made(case, form, alloc),
        None => give_wrapped(case, operator, number, alloc),
    }
}

/// A number is given. What a waiting operator makes of it is a form if that is one, and is taken
/// to fit 32 bits, unless it `may_wrap`. Of a division by a known number the quotient is bounded,
/// where what is divided fits 32 bits. Else it is some number of 32 bits.
pub fn give(case: &Case, number: Form, may_wrap: bool, alloc: Global) -> Result<Outcomes, RowFault>
    ensures { IfOk result (λ all. Gives number case.now all) }
{
    match waiting(case) {
        None => give_alone(case, number, alloc),
        Some(operator) => give_to(case, operator, &number, may_wrap, alloc),
    }
}

// Whether a division waits.
fn is_over(operator: Option<Operator>) -> bool
    ensures { result ≡ is_over operator }
{
    match operator {
        Some(Operator::Over) => true,
        _ => false,
    }
}

/// Some number of 32 bits is given. What is divided by it is not told.
pub fn give_any(case: &Case, alloc: Global) -> Result<Outcomes, RowFault>
    ensures { IfOk result (λ all. GivesAny case.now all) }
{
    if is_over(waiting(case)) {
        return Err(RowFault::NotTold);
    }
    let after = wrapped(case, alloc)?;
    one(after, Vec::new(alloc), alloc)
}
