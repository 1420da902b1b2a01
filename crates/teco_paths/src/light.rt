//! Cases with fewer constraints, which are followed in less time.
ghost use Rattle.std.specs.Prelude.{IfOk};
ghost use Rattle.teco_paths.specs.Steps.{IsSharper};

use crate::fault::PathFault;
use std::alloc::Global;
use teco_linear::Form;
use teco_rows::case::Case;

// With more constraints than this some are left out.
const MOST_CONSTRAINTS: usize = 120;

// Marks the symbols of a form.
fn mark(is_live: &mut [bool], form: &Form) {
    for term in form.terms() {
        if let Some(symbol) = term.symbol {
            if let Some(mark) = is_live.get_mut(symbol as usize) {
                *mark = true;
            }
        }
    }
}

// Which symbols a measure is given by. The first ones are those of the measures where the case began.
fn live_symbols(case: &Case, alloc: Global) -> Result<Vec<bool>, PathFault> {
    let mut is_live = Vec::from_elem(alloc, false, case.symbols as usize)?;
    for place in 0..case.forms.len() {
        if let Some(mark) = is_live.get_mut(place) {
            *mark = true;
        }
    }
    for form in case.forms.iter().flatten() {
        mark(&mut is_live, form);
    }
    Ok(is_live)
}

// Whether a constraint says something, and that of marked symbols alone.
fn is_of(constraint: &Form, is_live: &[bool]) -> bool {
    !constraint.is_harmless()
        && constraint.terms().iter().all(|term| match term.symbol {
            Some(symbol) => is_live.get(symbol as usize) == Some(&true),
            None => true,
        })
}

/// Whether a constraint stands among these.
pub fn is_among(constraint: &Form, others: &[Form]) -> bool {
    others
        .iter()
        .any(|other| other.terms() == constraint.terms())
}

// Which constraints are of use: each once, those of marked symbols alone.
fn of_use(constraints: &[Form], is_live: &[bool], alloc: Global) -> Result<Vec<bool>, PathFault> {
    let mut are_of_use = Vec::new(alloc);
    for (place, constraint) in constraints.iter().enumerate() {
        let before = constraints.get(..place).unwrap_or(&[]);
        are_of_use.push(is_of(constraint, is_live) && !is_among(constraint, before))?;
    }
    Ok(are_of_use)
}

/// The case without the constraints of symbols by which no measure is given, and each of the others
/// once, where it has many.
pub fn lighter(case: Case, alloc: Global) -> Result<Case, PathFault>
    ensures { IfOk result (λ light. IsSharper case light) }
{
    if case.constraints.len() <= MOST_CONSTRAINTS {
        return Ok(case);
    }
    let is_live = live_symbols(&case, alloc)?;
    let Case {
        symbols,
        forms,
        mut constraints,
        shape,
    } = case;
    let are_of_use = of_use(&constraints, &is_live, alloc)?;
    let mut place = 0usize;
    constraints.retain(|_form| {
        let is_of_use = are_of_use.get(place) == Some(&true);
        place = place.saturating_add(1);
        is_of_use
    });
    Ok(Case {
        symbols,
        forms,
        constraints,
        shape,
    })
}
