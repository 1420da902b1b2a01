//! Cases without some of the levels of pending arguments.
ghost use Rattle.std.specs.Prelude.{◌≡◌, IfOk, OnOk, ℕ};
ghost use Rattle.teco_rows.specs.Levels.{Empties, IsCopyOf, IsFront, IsOutermost, IsOutside};

use crate::applied::{copied_constraints, copied_forms, put};
use crate::case::{Case, Shape};
use crate::fault::RowFault;
use crate::levels::{FIRST, VALUE, at_level};
use crate::row::Places;
use std::alloc::Global;
use teco_linear::Form;
use teco_model::Operator;

// A copy of the case.
fn copied(case: &Case, alloc: Global) -> Result<Case, RowFault>
    ensures { IfOk result (λ copy. IsCopyOf case.now copy) }
{
    let forms = copied_forms(&case.forms, alloc)?;
    let constraints = copied_constraints(&case.constraints, alloc)?;
    let mut operators = Vec::new(alloc);
    operators.extend_from_slice(&case.shape.operators)?;
    Ok(Case {
        symbols: case.symbols,
        forms,
        constraints,
        shape: Shape {
            operators,
            iterations: case.shape.iterations,
            pushes: case.shape.pushes,
        },
    })
}

// Nothing is at a level.
fn empty_level(forms: &mut Vec<Option<Form>>, here: Places) -> Result<(), RowFault>
    ensures { OnOk result (Empties here forms.old.items forms.new.items) }
{
    put(forms, here.measure(FIRST).place(), None)?;
    put(forms, here.measure(VALUE).place(), None)?;
    Ok(())
}

// The innermost level is gone.
fn close_level(operators: &mut Vec<Option<Operator>>)
    ensures { IsFront operators.old.items operators.new.items }
{
    let _last = operators.pop();
}

/// The case without the innermost level.
pub fn outside(case: &Case, alloc: Global) -> Result<Case, RowFault>
    ensures { IfOk result (λ outside. IsOutside case.now outside) }
{
    let here = at_level(case)?;
    let mut outside = copied(case, alloc)?;
    empty_level(&mut outside.forms, here)?;
    close_level(&mut outside.shape.operators);
    Ok(outside)
}

/// The case with the outermost level alone.
pub fn outermost(case: &Case, alloc: Global) -> Result<Case, RowFault>
    ensures { IfOk result (λ outermost. IsOutermost case.now outermost) }
{
    let mut outermost = copied(case, alloc)?;
    let depth = case.shape.operators.len();
    let mut done = 1;
    while done < depth {
        outermost = outside(&outermost, alloc)?;
        done += 1;
    }
    Ok(outermost)
}
