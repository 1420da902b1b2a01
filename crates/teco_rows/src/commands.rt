//! Commands take their arguments, and may answer.
ghost use Rattle.std.specs.Prelude.{◌≡◌, ◌&&◌, ℕ, is_some, is_none, unwrap_or, IfOk};
ghost use Rattle.teco_linear.specs.Form.{Valuation, value};
ghost use Rattle.teco_model.specs.Arguments.{value_at_end};
ghost use Rattle.teco_rows.specs.Cases.{value_if};
ghost use Rattle.teco_rows.specs.Commands.{AreCommanded, EndsWith, IsAtLevel, IsCommanded, IsTaken, row_of};

use crate::case::Case;
use crate::fault::RowFault;
use crate::levels::{self, FIRST, NO, STEP, VALUE};
use crate::measure::Family;
use crate::row::{Clause, Of, Places, RowStep};
use std::alloc::Global;
use teco_linear::Form;
use teco_model::Operator;

/// The forms of the arguments that a command takes.
#[derive(Drop)]
pub struct TakenForms {
    pub first: Option<Form>,
    pub value: Option<Form>,
}

/// The arguments are taken in a step.
pub const TAKES: [Clause; 3] = [STEP, Clause::Drops(FIRST), Clause::Drops(VALUE)];

// The number that a sign is where nothing stands before it.
fn sign(operator: Operator, alloc: Global) -> Result<Option<Form>, RowFault>
    ensures { IfOk result (λ form. (n : ℕ) (v : Valuation)
        → value_at_end None (Some operator) ≡ Ok (value_if form n v)) }
{
    match operator {
        Operator::Plus => Ok(Some(Form::constant(1, alloc)?)),
        Operator::Minus => Ok(Some(Form::constant(-1, alloc)?)),
        _ => Err(RowFault::Argument),
    }
}

/// The value of the innermost level when it is finished, if there is one.
pub fn final_value(case: &Case, alloc: Global) -> Result<Option<Form>, RowFault>
    ensures { IfOk result (λ form. EndsWith case.now form) }
{
    let value = levels::pending(case, Family::Value, alloc)?;
    match levels::waiting(case) {
        None => Ok(value),
        Some(operator) if value.is_none() => sign(operator, alloc),
        Some(_) => Err(RowFault::Argument),
    }
}

// Whether a value before a comma has none behind it.
fn is_alone(first: &Option<Form>, value: &Option<Form>) -> bool
    ensures { result ≡ is_some first.now && is_none value.now }
{
    first.is_some() && value.is_none()
}

/// What a command takes. It is refused where that is an argument code.
pub fn take_arguments(case: &Case, alloc: Global) -> Result<TakenForms, RowFault>
    ensures { IfOk result (λ taken. IsTaken case.now taken) }
{
    let first = levels::pending(case, Family::First, alloc)?;
    let value = final_value(case, alloc)?;
    if is_alone(&first, &value) {
        return Err(RowFault::Argument);
    }
    Ok(TakenForms { first, value })
}

/// The form of a value, or of the number that stands for one.
pub fn argument(given: Option<Form>, absent: i128, alloc: Global) -> Result<Form, RowFault>
    ensures { IfOk result (λ form. (n : ℕ) (v : Valuation)
        → value form n v ≡ unwrap_or (value_if given n v) absent) }
{
    match given {
        Some(form) => Ok(form),
        None => {
            let number = Form::constant(absent, alloc)?;
            Ok(number)
        }
    }
}

// How many numbers that are not known the parts of a clause name.
fn unknowns(row: &[Clause]) -> u32 {
    let mut count = 0;
    for clause in row {
        if let Clause::Sets(_, _, parts) | Clause::Wants(_, parts) = clause {
            let (first, second, third, fourth) = *parts;
            for (_, of) in [first, second, third, fourth] {
                if let Of::Unknown(index) = of {
                    count = index.saturating_add(1).max(count);
                }
            }
        }
    }
    count
}

/// One way of a command: what it answers, and what it does.
#[derive(Clone, Copy)]
pub struct Way<'a> {
    pub answers: &'a [Clause],
    pub does: &'a [Clause],
}

/// The case behind a command that took its arguments, and then went a way.
pub fn command(
    case: &Case,
    way: &Way,
    given: &[Form],
    here: Places,
    alloc: Global,
) -> Result<Case, RowFault>
    requires level { IsAtLevel here case.now }
    ensures { IfOk result (λ after. IsCommanded case.now (row_of way.now) given.now here after) }
{
    let mut clauses = Vec::new(alloc);
    clauses.extend_from_slice(&TAKES)?;
    clauses.extend_from_slice(way.answers)?;
    clauses.extend_from_slice(way.does)?;
    let step = RowStep {
        clauses: &clauses,
        here,
        given,
        unknowns: unknowns(way.does).max(unknowns(way.answers)),
    };
    levels::led(case, &step, None, alloc)
}

/// The cases behind the ways of a command, in order.
pub fn commands(
    case: &Case,
    ways: &[Way],
    given: &[Form],
    here: Places,
    alloc: Global,
) -> Result<Vec<Case>, RowFault>
    requires level { IsAtLevel here case.now }
    ensures { IfOk result (λ cases. AreCommanded case.now ways.now given.now here cases.items) }
{
    let mut cases = Vec::new(alloc);
    for way in ways {
        cases.push(command(case, way, given, here, alloc)?)?;
    }
    Ok(cases)
}
