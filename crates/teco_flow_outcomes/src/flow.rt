//! What comes of elements that decide where the text goes on.
ghost use Rattle.std.specs.Prelude.{◌≡◌, ℕ, ℤ, IfOk, slice_index_or, [], true, false};
ghost use Rattle.teco_model.specs.Flow.{leaves};
ghost use Rattle.teco_rows.specs.Commands.{IsAtLevel};
ghost use Rattle.teco_flow_outcomes.specs.Flow.{AreLater, Counts, Enters, HasIterations, IsAgain, IsCounted};
ghost use Rattle.teco_flow_outcomes.specs.Flow.{IsEnded, IsInnermost, JumpsOut};
ghost use Rattle.teco_flow_outcomes.specs.Flow.{IsLater, IsLeft, IsNext, IsTurned, IsUncounted, Returns, Turns};
ghost use Rattle.teco_flow_outcomes.specs.Ranges.{IsIn, IsInOne};

use crate::arguments::{STEPS, dropped};
use crate::ranges::{NumberRange, Ranges, cases_in, only, row_in, where_it_fails, where_it_holds};
use std::alloc::Global;
use teco_linear::Form;
use teco_model::kind::{Flow, Test};
use teco_rows::applied::applied;
use teco_rows::case::Case;
use teco_rows::commands::{TAKES, TakenForms, take_arguments};
use teco_rows::fault::RowFault;
use teco_rows::forms::measured;
use teco_rows::levels::{NO, at_level, led, one, waiting, with_operator};
use teco_rows::measure::{Family, Measure};
use teco_rows::outcomes::Outcomes;
use teco_rows::outside::outermost;
use teco_rows::row::{Clause, Mark, Of, Places, RowStep};

const TURNS: Mark = Mark::Here(Family::Turns);

// The turns of a new iteration: n - 1 come after the first, or they are not counted.
const COUNTS: [Clause; 2] = [
    Clause::Sets(TURNS, -1, ((1, Of::Given(0)), NO, NO, NO)),
    Clause::Wants(-1, ((1, Of::Given(0)), NO, NO, NO)),
];

const COUNTS_NOT: [Clause; 1] = [Clause::Drops(TURNS)];

// One turn fewer is left, or there was none.
const AGAIN: [Clause; 2] = [
    Clause::Sets(TURNS, -1, ((1, Of::Was(TURNS)), NO, NO, NO)),
    Clause::Wants(-1, ((1, Of::Was(TURNS)), NO, NO, NO)),
];

const ENDS: [Clause; 2] = [
    Clause::Drops(TURNS),
    Clause::Wants(0, ((-1, Of::Was(TURNS)), NO, NO, NO)),
];

// The number that an element needs.
fn needed(taken: TakenForms) -> Result<Form, RowFault>
    ensures { IfOk result (λ form. taken.value ≡ Some form) }
{
    let TakenForms {
        first: _first,
        value,
    } = taken;
    match value {
        Some(value) => Ok(value),
        None => Err(RowFault::Argument),
    }
}

// The case behind a row, with so many iterations open, where no operator waits.
fn with_iterations(
    case: &Case,
    step: &RowStep,
    iterations: usize,
    alloc: Global,
) -> Result<Case, RowFault>
    ensures { IfOk result (λ made. HasIterations case.now step.now iterations made) }
{
    let mut shape = with_operator(&case.shape, None, alloc)?;
    shape.iterations = iterations;
    let made = applied(case, step, shape, alloc)?;
    Ok(made)
}

// The case behind an element that took its arguments, by a row, with so many iterations open.
fn turned(case: &Case, step: &RowStep, iterations: usize, alloc: Global) -> Result<Case, RowFault>
    requires level { IsAtLevel step.now.here case.now }
    ensures { IfOk result (λ made. IsTurned case.now step.now iterations made) }
{
    let mut clauses = Vec::new(alloc);
    clauses.extend_from_slice(&TAKES)?;
    clauses.extend_from_slice(step.clauses)?;
    let whole = RowStep {
        clauses: &clauses,
        ..*step
    };
    with_iterations(case, &whole, iterations, alloc)
}

// The places at hand where an element is about the innermost iteration.
fn innermost(case: &Case) -> Result<Places, RowFault>
    ensures level { IfOk result (λ here. IsAtLevel here case.now) }
    ensures iteration { IfOk result (λ here. IsInnermost here.iteration case.now) }
{
    let here = at_level(case)?;
    let Some(last) = case.shape.iterations.checked_sub(1) else {
        return Err(RowFault::NotTold);
    };
    match u32::try_from(last) {
        Ok(iteration) => Ok(Places { iteration, ..here }),
        Err(_) => Err(RowFault::TooMany),
    }
}

// The places at hand where an iteration begins.
fn next_iteration(case: &Case) -> Result<Places, RowFault>
    ensures level { IfOk result (λ here. IsAtLevel here case.now) }
    ensures iteration { IfOk result (λ here. IsNext here.iteration case.now) }
{
    let here = at_level(case)?;
    match u32::try_from(case.shape.iterations) {
        Ok(iteration) => Ok(Places { iteration, ..here }),
        Err(_) => Err(RowFault::TooMany),
    }
}

// The case in a body whose turns are not counted.
fn uncounted(case: &Case, alloc: Global) -> Result<Case, RowFault>
    ensures { IfOk result (λ made. IsUncounted case.now made) }
{
    let here = next_iteration(case)?;
    let step = RowStep {
        clauses: &COUNTS_NOT,
        here,
        given: &[],
        unknowns: 0,
    };
    turned(case, &step, here.iteration as usize + 1, alloc)
}

// The case in one where they are.
fn counted(case: &Case, number: &[Form], alloc: Global) -> Result<Case, RowFault>
    ensures { IfOk result (λ made. IsCounted case.now (slice_index_or number.now 0 []) made) }
{
    let here = next_iteration(case)?;
    let step = RowStep {
        clauses: &COUNTS,
        here,
        given: number,
        unknowns: 0,
    };
    turned(case, &step, here.iteration as usize + 1, alloc)
}

// With a number it goes into its body from 1 on, and else past its end.
fn enter_counted(case: &Case, number: &[Form], alloc: Global) -> Result<Outcomes, RowFault>
    ensures { IfOk result (λ all.
        Enters case.now (Some (slice_index_or number.now 0 [])) all.cases.items all.away.items) }
{
    let here = at_level(case)?;
    let mut cases = Vec::new(alloc);
    cases.push(counted(case, number, alloc)?)?;
    let away = cases_in(case, only(NumberRange::UpTo(0)), number, here, alloc)?;
    Ok(Outcomes {
        conditions: Vec::new(alloc),
        guarded: Vec::new(alloc),
        cases,
        away,
    })
}

// Without one it goes into its body.
fn enter_uncounted(case: &Case, alloc: Global) -> Result<Outcomes, RowFault>
    ensures { IfOk result (λ all. Enters case.now None all.cases.items all.away.items) }
{
    let body = uncounted(case, alloc)?;
    one(body, Vec::new(alloc), alloc)
}

// < begins an iteration.
fn iterate(case: &Case, alloc: Global) -> Result<Outcomes, RowFault>
    ensures { IfOk result (λ all. (colons : ℕ) → Turns Flow.Iterate colons case.now all) }
{
    let taken = take_arguments(case, alloc)?;
    let TakenForms {
        first: _first,
        value,
    } = taken;
    match value {
        Some(number) => enter_counted(case, &[number], alloc),
        None => enter_uncounted(case, alloc),
    }
}

// A conditional goes on where its test holds, and else to its other branch.
fn conditional(case: &Case, test: Test, alloc: Global) -> Result<Outcomes, RowFault>
    ensures { IfOk result (λ all. (colons : ℕ) → Turns (Flow.Test test) colons case.now all) }
{
    let taken = take_arguments(case, alloc)?;
    let number = needed(taken)?;
    let here = at_level(case)?;
    let number = [number];
    let cases = cases_in(case, where_it_holds(test), &number, here, alloc)?;
    let away = cases_in(case, where_it_fails(test), &number, here, alloc)?;
    Ok(Outcomes {
        conditions: Vec::new(alloc),
        guarded: Vec::new(alloc),
        cases,
        away,
    })
}

// The numbers for which ; stays.
fn staying(colons: u8) -> Ranges
    ensures { (x : ℤ) → leaves colons x ≡ false → IsInOne result x }
{
    if colons == 0 {
        only(NumberRange::UpTo(-1))
    } else {
        only(NumberRange::From(0))
    }
}

// Those for which it leaves.
fn leaving(colons: u8) -> NumberRange
    ensures { (x : ℤ) → leaves colons x ≡ true → IsIn result x }
{
    if colons == 0 {
        NumberRange::From(0)
    } else {
        NumberRange::UpTo(-1)
    }
}

/// The case where an iteration is left, for a number in a range.
pub fn left(
    case: &Case,
    range: NumberRange,
    number: &[Form],
    alloc: Global,
) -> Result<Case, RowFault>
    ensures { IfOk result (λ made. IsLeft case.now range (slice_index_or number.now 0 []) made) }
{
    let outermost = outermost(case, alloc)?;
    let here = innermost(&outermost)?;
    let mut row = row_in(range, alloc)?;
    row.push(Clause::Drops(TURNS))?;
    let step = RowStep {
        clauses: &row,
        here,
        given: number,
        unknowns: 0,
    };
    turned(&outermost, &step, here.iteration as usize, alloc)
}

// ; goes on, or leaves its iteration.
fn leave(case: &Case, colons: u8, alloc: Global) -> Result<Outcomes, RowFault>
    ensures { IfOk result (λ all. Turns Flow.Leave colons case.now all) }
{
    let taken = take_arguments(case, alloc)?;
    let number = needed(taken)?;
    let here = at_level(case)?;
    let number = [number];
    let cases = cases_in(case, staying(colons), &number, here, alloc)?;
    let mut away = Vec::new(alloc);
    away.push(left(case, leaving(colons), &number, alloc)?)?;
    Ok(Outcomes {
        conditions: Vec::new(alloc),
        guarded: Vec::new(alloc),
        cases,
        away,
    })
}

// The case at the start of the body again, with one turn fewer left.
fn again(case: &Case, alloc: Global) -> Result<Case, RowFault>
    ensures { IfOk result (λ made. IsAgain case.now made) }
{
    let here = innermost(case)?;
    let step = RowStep {
        clauses: &AGAIN,
        here,
        given: &[],
        unknowns: 0,
    };
    turned(case, &step, here.iteration as usize + 1, alloc)
}

// The case behind the last turn.
fn ended(case: &Case, alloc: Global) -> Result<Case, RowFault>
    ensures { IfOk result (λ made. IsEnded case.now made) }
{
    let here = innermost(case)?;
    let step = RowStep {
        clauses: &ENDS,
        here,
        given: &[],
        unknowns: 0,
    };
    turned(case, &step, here.iteration as usize, alloc)
}

// Where turns are counted, it goes back while some are left.
fn return_counted(case: &Case, alloc: Global) -> Result<Outcomes, RowFault>
    ensures { IfOk result (λ all. Returns true case.now all.cases.items all.away.items) }
{
    let mut cases = Vec::new(alloc);
    cases.push(ended(case, alloc)?)?;
    let mut away = Vec::new(alloc);
    away.push(again(case, alloc)?)?;
    Ok(Outcomes {
        conditions: Vec::new(alloc),
        guarded: Vec::new(alloc),
        cases,
        away,
    })
}

// Where they are not, it goes back.
fn return_uncounted(case: &Case, alloc: Global) -> Result<Outcomes, RowFault>
    ensures { IfOk result (λ all. Returns false case.now all.cases.items all.away.items) }
{
    let here = at_level(case)?;
    let away = cases_in(case, only(NumberRange::Any), &[], here, alloc)?;
    Ok(Outcomes {
        conditions: Vec::new(alloc),
        guarded: Vec::new(alloc),
        cases: Vec::new(alloc),
        away,
    })
}

// Whether the turns of the innermost iteration are counted.
fn is_counted(case: &Case, alloc: Global) -> Result<bool, RowFault>
    ensures { IfOk result (λ answer. Counts answer case.now) }
{
    let here = innermost(case)?;
    let turns = measured(case, Measure::Each(Family::Turns, here.iteration), alloc)?;
    Ok(turns.is_some())
}

// > ends a turn.
fn end_turn(case: &Case, alloc: Global) -> Result<Outcomes, RowFault>
    ensures { IfOk result (λ all. (colons : ℕ) → Turns Flow.EndTurn colons case.now all) }
{
    let outermost = outermost(case, alloc)?;
    if is_counted(&outermost, alloc)? {
        return_counted(&outermost, alloc)
    } else {
        return_uncounted(&outermost, alloc)
    }
}

// The case a step later, where nothing else is done.
fn later(case: &Case, alloc: Global) -> Result<Case, RowFault>
    ensures { IfOk result (λ made. IsLater case.now made) }
{
    let step = RowStep {
        clauses: &STEPS,
        here: at_level(case)?,
        given: &[],
        unknowns: 0,
    };
    led(case, &step, waiting(case), alloc)
}

// The text goes on behind the element.
fn go_past(case: &Case, alloc: Global) -> Result<Outcomes, RowFault>
    ensures { IfOk result (λ all. AreLater case.now all.cases.items) }
{
    let behind = later(case, alloc)?;
    one(behind, Vec::new(alloc), alloc)
}

// The text goes on elsewhere.
fn go_away(case: &Case, alloc: Global) -> Result<Outcomes, RowFault>
    ensures { IfOk result (λ all. AreLater case.now all.away.items) }
{
    let mut away = Vec::new(alloc);
    away.push(later(case, alloc)?)?;
    Ok(Outcomes {
        conditions: Vec::new(alloc),
        guarded: Vec::new(alloc),
        cases: Vec::new(alloc),
        away,
    })
}

// The cases behind a tag, without any argument: in the same iterations, or out of one. Out of more
// it is not told.
fn behind_tag(case: &Case, alloc: Global) -> Result<Vec<Case>, RowFault>
    ensures { IfOk result (λ away. JumpsOut case.now away.items) }
{
    let iterations = case.shape.iterations;
    if iterations > 1 {
        return Err(RowFault::NotTold);
    }
    let stays = dropped(case, alloc)?;
    let mut away = Vec::new(alloc);
    away.push(stays)?;
    if iterations == 0 {
        return Ok(away);
    }
    let gone = left(case, NumberRange::Any, &[], alloc)?;
    away.push(gone)?;
    Ok(away)
}

// O takes no value.
fn go_to(case: &Case, alloc: Global) -> Result<Outcomes, RowFault>
    ensures { IfOk result (λ all. (colons : ℕ) → Turns Flow.GoTo colons case.now all) }
{
    let taken = take_arguments(case, alloc)?;
    let TakenForms {
        first: _first,
        value,
    } = taken;
    if value.is_some() {
        return Err(RowFault::Argument);
    }
    let away = behind_tag(case, alloc)?;
    Ok(Outcomes {
        conditions: Vec::new(alloc),
        guarded: Vec::new(alloc),
        cases: Vec::new(alloc),
        away,
    })
}

/// What comes of an element that decides where the text goes on.
pub fn turn(case: &Case, flow: Flow, colons: u8, alloc: Global) -> Result<Outcomes, RowFault>
    ensures { IfOk result (λ all. Turns flow colons case.now all) }
{
    match flow {
        Flow::Iterate => iterate(case, alloc),
        Flow::EndTurn => end_turn(case, alloc),
        Flow::Leave => leave(case, colons, alloc),
        Flow::Test(test) => conditional(case, test, alloc),
        Flow::Otherwise => go_away(case, alloc),
        Flow::GoAhead(_) => go_away(case, alloc),
        Flow::EndTest => go_past(case, alloc),
        Flow::Comment => go_past(case, alloc),
        Flow::GoTo => go_to(case, alloc),
    }
}
