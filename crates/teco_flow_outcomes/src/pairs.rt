//! What comes of elements that give a pair of values.
ghost use Rattle.std.specs.Prelude.{◌≡◌, IfOk, slice_index_or, []};
ghost use Rattle.teco_rows.specs.Levels.{GivesPair, IsPaired, Leaves};

use std::alloc::Global;
use teco_linear::Form;
use teco_rows::applied::copied;
use teco_rows::case::Case;
use teco_rows::fault::RowFault;
use teco_rows::forms::within_32_bits;
use teco_rows::levels::{
    FIRST, NO, STEP, VALUE, at_level, led, left_value, made, one, pending, waiting,
};
use teco_rows::measure::Family;
use teco_rows::outcomes::Outcomes;
use teco_rows::row::{Clause, Of, RowStep};

// Both values are there.
const PAIRS: [Clause; 3] = [
    STEP,
    Clause::Sets(FIRST, 0, ((1, Of::Given(0)), NO, NO, NO)),
    Clause::Sets(VALUE, 0, ((1, Of::Given(1)), NO, NO, NO)),
];

// The value that is left where a number is given, under conditions.
#[derive(Drop)]
struct Left {
    form: Form,
    conditions: Vec<Form>,
}

// What an operator that waits makes of a number has to be a form.
fn left_by(case: &Case, number: &Form, alloc: Global) -> Result<Left, RowFault>
    ensures { IfOk result (λ left. Leaves number.now case.now left.conditions.items left.form) }
{
    let Some(operator) = waiting(case) else {
        let form = copied(number, alloc)?;
        return Ok(Left {
            form,
            conditions: Vec::new(alloc),
        });
    };
    let value = left_value(case, alloc)?;
    match made(&value, operator, number, alloc)? {
        Some(form) => {
            let conditions = within_32_bits(&form, alloc)?;
            Ok(Left { form, conditions })
        }
        None => Err(RowFault::NotTold),
    }
}

// The case where the innermost level has two forms as its values.
fn paired(case: &Case, both: &[Form], alloc: Global) -> Result<Case, RowFault>
    ensures { IfOk result (λ after.
        IsPaired case.now (slice_index_or both.now 0 []) (slice_index_or both.now 1 []) after) }
{
    let step = RowStep {
        clauses: &PAIRS,
        here: at_level(case)?,
        given: both,
        unknowns: 0,
    };
    led(case, &step, None, alloc)
}

/// Two numbers are given with a comma between them. The first one has to be at least 0.
pub fn give_pair(
    case: &Case,
    first: &Form,
    second: Form,
    alloc: Global,
) -> Result<Outcomes, RowFault>
    ensures { IfOk result (λ all. GivesPair first.now second case.now all) }
{
    if pending(case, Family::First, alloc)?.is_some() {
        return Err(RowFault::Argument);
    }
    let Left {
        form,
        mut conditions,
    } = left_by(case, first, alloc)?;
    conditions.push(copied(&form, alloc)?)?;
    let after = paired(case, &[form, second], alloc)?;
    one(after, conditions, alloc)
}
