//! Changes of what is kept and what is unread, before the arguments are taken and a step is counted.
ghost use Rattle.std.specs.Prelude.{◌≡◌, ℤ, Option, IfOk};
ghost use Rattle.teco_motion_outcomes.specs.Changes.{IsChangedFrom, IsTold, answer_row};

use std::alloc::Global;
use teco_linear::Form;
use teco_rows::case::Case;
use teco_rows::commands::{Way, command};
use teco_rows::fault::RowFault;
use teco_rows::levels::{at_level, led, waiting};
use teco_rows::row::{Clause, RowStep};

/// The case where a row changes what is kept and what is unread, and no step is done.
pub fn changed(case: &Case, row: &[Clause], given: &[Form], alloc: Global) -> Result<Case, RowFault>
    ensures { IfOk result (λ made. IsChangedFrom case.now row.now given.now made) }
{
    let step = RowStep {
        clauses: row,
        here: at_level(case)?,
        given,
        unknowns: 6,
    };
    led(case, &step, waiting(case), alloc)
}

/// The case a step later, where the arguments are taken and this is answered.
pub fn told(case: &Case, answer: &[Clause], alloc: Global) -> Result<Case, RowFault>
    ensures { IfOk result (λ made. (x : Option ℤ) → answer.now ≡ answer_row x → IsTold case.now x made) }
{
    let here = at_level(case)?;
    let way = Way {
        answers: &[],
        does: answer,
    };
    command(case, &way, &[], here, alloc)
}
