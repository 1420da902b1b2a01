//! What comes of elements that work on the push-down list.
ghost use Rattle.std.specs.Prelude.{◌≡◌, ◌<◌, IfOk};
ghost use Rattle.teco_base.specs.declared.TheConstants.{REGISTERS};
ghost use Rattle.teco_model.specs.Step.{after_stack};
ghost use Rattle.teco_rows.specs.Foretold.{Foretells};
ghost use Rattle.teco_query_outcomes.specs.Pushes.{IsPopped, IsPushed, IsStacked};

use std::alloc::Global;
use teco_base::Reg;
use teco_model::kind::Stack;
use teco_motion_outcomes::motions::NUMBER;
use teco_rows::applied::applied;
use teco_rows::case::Case;
use teco_rows::fault::RowFault;
use teco_rows::levels::{NO, STEP, one, waiting, with_operator};
use teco_rows::measure::Family;
use teco_rows::outcomes::Outcomes;
use teco_rows::row::{Clause, Mark, Of, Places, RowStep};

pub const LENGTH: Mark = Mark::Here(Family::Length);

const PUSHED_NUMBER: Mark = Mark::Here(Family::PushedNumber);

const PUSHED_LENGTH: Mark = Mark::Here(Family::PushedLength);

// The list has one pair more, that of the register.
const PUSHES: [Clause; 3] = [
    STEP,
    Clause::Sets(PUSHED_NUMBER, 0, ((1, Of::Was(NUMBER)), NO, NO, NO)),
    Clause::Sets(PUSHED_LENGTH, 0, ((1, Of::Was(LENGTH)), NO, NO, NO)),
];

// The register has the newest pair, which is on the list no more.
const POPS: [Clause; 5] = [
    STEP,
    Clause::Sets(NUMBER, 0, ((1, Of::Was(PUSHED_NUMBER)), NO, NO, NO)),
    Clause::Sets(LENGTH, 0, ((1, Of::Was(PUSHED_LENGTH)), NO, NO, NO)),
    Clause::Drops(PUSHED_NUMBER),
    Clause::Drops(PUSHED_LENGTH),
];

// The places at hand where an element is about a register and a pair on the list.
fn at_pair(register: Reg, pair: usize) -> Result<Places, RowFault>
    ensures register { IfOk result (λ here. here.register ≡ register) }
    ensures within { IfOk result (λ here. here.register < REGISTERS) }
    ensures push { IfOk result (λ here. here.push ≡ pair) }
{
    match u32::try_from(pair) {
        Ok(push) => Ok(Places {
            register: register.index() as u32,
            iteration: 0,
            push,
            level: 0,
        }),
        Err(_) => Err(RowFault::TooMany),
    }
}

// The case behind a row, with so many pairs pushed.
fn with_pushes(case: &Case, step: &RowStep, pushes: usize, alloc: Global) -> Result<Case, RowFault>
    ensures { IfOk result (λ made. IsStacked case.now step.now pushes made) }
{
    let mut shape = with_operator(&case.shape, waiting(case), alloc)?;
    shape.pushes = pushes;
    let made = applied(case, step, shape, alloc)?;
    Ok(made)
}

// The case with one pair more.
fn pushed(case: &Case, register: Reg, alloc: Global) -> Result<Case, RowFault>
    ensures { IfOk result (λ made. IsPushed case.now register made) }
{
    let here = at_pair(register, case.shape.pushes)?;
    let step = RowStep {
        clauses: &PUSHES,
        here,
        given: &[],
        unknowns: 0,
    };
    with_pushes(case, &step, here.push as usize + 1, alloc)
}

// The case with one pair fewer, where one was pushed.
fn popped(case: &Case, register: Reg, alloc: Global) -> Result<Case, RowFault>
    ensures { IfOk result (λ made. IsPopped case.now register made) }
{
    let Some(newest) = case.shape.pushes.checked_sub(1) else {
        return Err(RowFault::NotTold);
    };
    let here = at_pair(register, newest)?;
    let step = RowStep {
        clauses: &POPS,
        here,
        given: &[],
        unknowns: 0,
    };
    with_pushes(case, &step, newest, alloc)
}

// `[` pushes a pair.
fn push_pair(case: &Case, register: Reg, alloc: Global) -> Result<Outcomes, RowFault>
    ensures { IfOk result (λ all.
        Foretells (λ s. after_stack (Stack.Push register) s.kept s.arguments) case.now all) }
{
    let after = pushed(case, register, alloc)?;
    one(after, Vec::new(alloc), alloc)
}

// `]` pops one.
fn pop_pair(case: &Case, register: Reg, alloc: Global) -> Result<Outcomes, RowFault>
    ensures { IfOk result (λ all.
        Foretells (λ s. after_stack (Stack.Pop register) s.kept s.arguments) case.now all) }
{
    let after = popped(case, register, alloc)?;
    one(after, Vec::new(alloc), alloc)
}

/// `[` pushes a pair, and `]` pops one that was pushed since the entry.
pub fn stack(case: &Case, kind: Stack, alloc: Global) -> Result<Outcomes, RowFault>
    ensures { IfOk result (λ all. Foretells (λ s. after_stack kind s.kept s.arguments) case.now all) }
{
    match kind {
        Stack::Push(register) => push_pair(case, register, alloc),
        Stack::Pop(register) => pop_pair(case, register, alloc),
    }
}
