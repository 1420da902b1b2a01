//! What comes of elements that change the pending arguments alone.
ghost use Rattle.std.specs.Prelude.{◌≡◌, IfOk, slice_index_or, [], ◌∷◌, ◌++◌, None};
ghost use Rattle.teco_model.specs.Arguments as model;
ghost use Rattle.teco_model.specs.Step.{levels_after};
ghost use Rattle.teco_rows.specs.Foretold.{Rearranges};
ghost use Rattle.teco_rows.specs.Levels.{IsDeeper, IsOpened, IsParted, PartsAt};
ghost use Rattle.teco_flow_outcomes.specs.Flow.{IsDropped};

use std::alloc::Global;
use teco_base::arithmetic;
use teco_linear::Form;
use teco_model::Operator;
use teco_model::kind::Argument;
use teco_rows::applied::{applied, copied};
use teco_rows::case::{Case, Shape};
use teco_rows::commands::{Way, command, final_value};
use teco_rows::fault::RowFault;
use teco_rows::levels::{FIRST, NO, STEP, VALUE, at_level, give, led, one, pending, waiting};
use teco_rows::measure::Family;
use teco_rows::outcomes::Outcomes;
use teco_rows::outside::{outermost, outside};
use teco_rows::row::{Clause, Of, Places, RowStep};

/// A step, and all that is measured stays.
pub const STEPS: [Clause; 1] = [STEP];

// The value is the first one of a pair.
const PARTS: [Clause; 3] = [
    STEP,
    Clause::Sets(FIRST, 0, ((1, Of::Given(0)), NO, NO, NO)),
    Clause::Drops(VALUE),
];

// Nothing is at the level.
const OPENS: [Clause; 3] = [STEP, Clause::Drops(FIRST), Clause::Drops(VALUE)];

// The number that a run of digits is.
fn run_value(digits: &[u8]) -> i32
    ensures { result ≡ model.run_value digits.now }
{
    let mut value = 0;
    for digit in digits {
        value = arithmetic::add(
            arithmetic::mul(value, 10),
            i32::from(digit.saturating_sub(b'0')),
        );
    }
    value
}

// A number is given.
fn give_number(
    case: &Case,
    number: i32,
    may_wrap: bool,
    alloc: Global,
) -> Result<Outcomes, RowFault>
    ensures { IfOk result (λ all.
        Rearranges (λ arguments. model.with_level arguments (model.level_with number arguments.level)) case.now all) }
{
    let form = Form::constant(i128::from(number), alloc)?;
    give(case, form, may_wrap, alloc)
}

// An operator waits, where none did.
fn operate(case: &Case, operator: Operator, alloc: Global) -> Result<Outcomes, RowFault>
    ensures { IfOk result (λ all. Rearranges (levels_after (Argument.Operate operator) []) case.now all) }
{
    if waiting(case).is_some() {
        return Err(RowFault::Argument);
    }
    let step = RowStep {
        clauses: &STEPS,
        here: at_level(case)?,
        given: &[],
        unknowns: 0,
    };
    let after = led(case, &step, Some(operator), alloc)?;
    one(after, Vec::new(alloc), alloc)
}

// The case where the innermost level has a form as its first value.
fn parted(case: &Case, first: &[Form], alloc: Global) -> Result<Case, RowFault>
    ensures { IfOk result (λ after. IsParted case.now (slice_index_or first.now 0 []) after) }
{
    let step = RowStep {
        clauses: &PARTS,
        here: at_level(case)?,
        given: first,
        unknowns: 0,
    };
    led(case, &step, None, alloc)
}

// The value that a form is becomes the first one, where it is at least 0.
fn part_at(case: &Case, value: Form, alloc: Global) -> Result<Outcomes, RowFault>
    ensures { IfOk result (λ all. PartsAt value case.now all) }
{
    let mut conditions = Vec::new(alloc);
    conditions.push(copied(&value, alloc)?)?;
    let after = parted(case, &[value], alloc)?;
    one(after, conditions, alloc)
}

// The value of the innermost level becomes its first one.
fn part(case: &Case, alloc: Global) -> Result<Outcomes, RowFault>
    ensures { IfOk result (λ all. Rearranges (levels_after Argument.Comma []) case.now all) }
{
    let first = pending(case, Family::First, alloc)?;
    if first.is_some() {
        return Err(RowFault::Argument);
    }
    match final_value(case, alloc)? {
        Some(value) => part_at(case, value, alloc),
        None => Err(RowFault::Argument),
    }
}

// The same shape once more, with one level more.
fn with_level(shape: &Shape, alloc: Global) -> Result<Shape, RowFault>
    ensures operators { IfOk result (λ after. after.operators.items ≡ shape.now.operators.items ++ None ∷ []) }
    ensures iterations { IfOk result (λ after. after.iterations ≡ shape.now.iterations) }
    ensures pushes { IfOk result (λ after. after.pushes ≡ shape.now.pushes) }
{
    let mut operators = Vec::new(alloc);
    operators.extend_from_slice(&shape.operators)?;
    operators.push(None)?;
    Ok(Shape {
        operators,
        iterations: shape.iterations,
        pushes: shape.pushes,
    })
}

// The case behind a row, with one level more.
fn deeper(case: &Case, step: &RowStep, alloc: Global) -> Result<Case, RowFault>
    ensures { IfOk result (λ after. IsDeeper case.now step.now after) }
{
    let shape = with_level(&case.shape, alloc)?;
    applied(case, step, shape, alloc)
}

// The case behind an opening parenthesis.
fn opened(case: &Case, alloc: Global) -> Result<Case, RowFault>
    ensures { IfOk result (λ after. IsOpened case.now after) }
{
    let here = at_level(case)?;
    let Some(level) = here.level.checked_add(1) else {
        return Err(RowFault::TooMany);
    };
    let step = RowStep {
        clauses: &OPENS,
        here: Places { level, ..here },
        given: &[],
        unknowns: 0,
    };
    deeper(case, &step, alloc)
}

// A level begins, in which nothing is.
fn open(case: &Case, alloc: Global) -> Result<Outcomes, RowFault>
    ensures { IfOk result (λ all. Rearranges (levels_after Argument.Open []) case.now all) }
{
    let after = opened(case, alloc)?;
    one(after, Vec::new(alloc), alloc)
}

// A level ends, and gives its value to the one outside.
fn close(case: &Case, may_wrap: bool, alloc: Global) -> Result<Outcomes, RowFault>
    ensures { IfOk result (λ all. Rearranges (levels_after Argument.Close []) case.now all) }
{
    let first = pending(case, Family::First, alloc)?;
    if case.shape.operators.len() < 2 || first.is_some() {
        return Err(RowFault::Argument);
    }
    match final_value(case, alloc)? {
        Some(value) => give(&outside(case, alloc)?, value, may_wrap, alloc),
        None => Err(RowFault::Argument),
    }
}

/// The case a step later without any argument.
pub fn dropped(case: &Case, alloc: Global) -> Result<Case, RowFault>
    ensures { IfOk result (λ made. IsDropped case.now made) }
{
    let outermost = outermost(case, alloc)?;
    let here = at_level(&outermost)?;
    let nothing = Way {
        answers: &[],
        does: &[],
    };
    command(&outermost, &nothing, &[], here, alloc)
}

// All arguments are dropped.
fn drop_all(case: &Case, alloc: Global) -> Result<Outcomes, RowFault>
    ensures { IfOk result (λ all. Rearranges (levels_after Argument.DropAll []) case.now all) }
{
    let after = dropped(case, alloc)?;
    one(after, Vec::new(alloc), alloc)
}

/// What becomes of the arguments by an element of this text.
pub fn change_arguments(
    case: &Case,
    argument: Argument,
    text: &[u8],
    may_wrap: bool,
    alloc: Global,
) -> Result<Outcomes, RowFault>
    ensures { IfOk result (λ all. Rearranges (levels_after argument text.now) case.now all) }
{
    match argument {
        Argument::DropAll => drop_all(case, alloc),
        Argument::Digits => {
            let number = run_value(text);
            give_number(case, number, may_wrap, alloc)
        }
        Argument::Operate(operator) => operate(case, operator, alloc),
        Argument::Open => open(case, alloc),
        Argument::Close => close(case, may_wrap, alloc),
        Argument::Comma => part(case, alloc),
    }
}
