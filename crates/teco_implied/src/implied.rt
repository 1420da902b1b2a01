//! What a case implies.
ghost use Rattle.std.specs.Prelude.{◌≡◌, IfOk};
ghost use Rattle.std.specs.Bool.{OnTrue};
ghost use Rattle.std.specs.List.{All};
ghost use Rattle.teco_linear.specs.Implied.{Implies};
ghost use Rattle.teco_implied.specs.Implied.{AreMet, IsImpossible, IsKept};

use crate::fault::ImpliedFault;
use crate::multipliers::{Combination, Depth, find};
use std::alloc::Global;
use teco_linear::{Form, LinearFault, is_implied};
use teco_rows::applied::copied_constraints;
use teco_rows::case::Case;
use teco_rows::outcomes::{Guarded, Outcomes};

// Whether multipliers show it. Where a number passes its bounds, they do not.
fn is_shown(
    constraints: &[Form],
    found: &Combination,
    target: &Form,
    alloc: Global,
) -> Result<bool, ImpliedFault>
    ensures { IfOk result (λ answer. OnTrue answer (Implies constraints.now target.now)) }
{
    match is_implied(
        constraints,
        &found.multipliers,
        found.divisor,
        target,
        alloc,
    ) {
        Ok(answer) => Ok(answer),
        Err(LinearFault::Memory) => Err(ImpliedFault::Memory),
        Err(_) => Ok(false),
    }
}

// Whether multipliers are found that show it, by way of what shares symbols with the seeds.
fn is_found(
    constraints: &[Form],
    seeds: &[Form],
    target: &Form,
    depth: Depth,
    alloc: Global,
) -> Result<bool, ImpliedFault>
    ensures { IfOk result (λ answer. OnTrue answer (Implies constraints.now target.now)) }
{
    match find(constraints, seeds, target, depth, alloc)? {
        Some(found) => is_shown(constraints, &found, target, alloc),
        None => Ok(false),
    }
}

// The seeds: others, and the target behind them.
fn with_target(others: &[Form], target: &Form, alloc: Global) -> Result<Vec<Form>, ImpliedFault> {
    let mut seeds = copied_constraints(others, alloc)?;
    seeds.push(target.add(&Form::zero(alloc), alloc)?)?;
    Ok(seeds)
}

// Whether multipliers are sought and found that show it.
fn is_shown_by(
    case: &Case,
    target: &Form,
    depth: Depth,
    alloc: Global,
) -> Result<bool, ImpliedFault>
    ensures { IfOk result (λ answer. OnTrue answer (Implies case.now.constraints.items target.now)) }
{
    let seeds = with_target(&[], target, alloc)?;
    is_found(&case.constraints, &seeds, target, depth, alloc)
}

/// Whether a form is found to be at least 0 wherever the constraints of a case hold.
pub fn is_so(case: &Case, target: &Form, alloc: Global) -> Result<bool, ImpliedFault>
    ensures { IfOk result (λ answer. OnTrue answer (Implies case.now.constraints.items target.now)) }
{
    is_shown_by(case, target, Depth::All, alloc)
}

/// Whether it is found to be so by what is near the target, which takes less time.
pub fn is_so_nearby(case: &Case, target: &Form, alloc: Global) -> Result<bool, ImpliedFault>
    ensures { IfOk result (λ answer. OnTrue answer (Implies case.now.constraints.items target.now)) }
{
    is_shown_by(case, target, Depth::Near, alloc)
}

// Whether all of these are.
fn are_so(case: &Case, targets: &[Form], alloc: Global) -> Result<bool, ImpliedFault>
    ensures { IfOk result (λ answer.
        OnTrue answer (All (Implies case.now.constraints.items) targets.now)) }
{
    for target in targets {
        if !is_so(case, target, alloc)? {
            return Ok(false);
        }
    }
    Ok(true)
}

// Whether a guarded condition is found to hold wherever its constraints do, of which so many can all hold.
fn is_guarded(guarded: &Guarded, known: usize, alloc: Global) -> Result<bool, ImpliedFault>
    ensures { IfOk result (λ answer. OnTrue answer (IsKept guarded.now)) }
{
    let new = guarded.constraints.get(known..).unwrap_or(&[]);
    let seeds = with_target(new, &guarded.wanted, alloc)?;
    is_found(
        &guarded.constraints,
        &seeds,
        &guarded.wanted,
        Depth::All,
        alloc,
    )
}

// Whether all of these are.
fn are_guarded(all: &[Guarded], known: usize, alloc: Global) -> Result<bool, ImpliedFault>
    ensures { IfOk result (λ answer. OnTrue answer (All IsKept all.now)) }
{
    for guarded in all {
        if !is_guarded(guarded, known, alloc)? {
            return Ok(false);
        }
    }
    Ok(true)
}

/// Whether the conditions of outcomes are found to hold wherever the constraints of a case do.
pub fn are_met(case: &Case, outcomes: &Outcomes, alloc: Global) -> Result<bool, ImpliedFault>
    ensures { IfOk result (λ answer. OnTrue answer (AreMet case.now outcomes.now)) }
{
    let are_all_so = are_so(case, &outcomes.conditions, alloc)?;
    if !are_all_so {
        return Ok(false);
    }
    are_guarded(&outcomes.guarded, case.constraints.len(), alloc)
}

/// Whether no state is found to be as a case says, of whose constraints so many can all hold: they
/// imply that -1 is at least 0.
pub fn is_impossible(case: &Case, known: usize, alloc: Global) -> Result<bool, ImpliedFault>
    ensures { IfOk result (λ answer. OnTrue answer (IsImpossible case.now)) }
{
    let below = Form::constant(-1, alloc)?;
    let new = case.constraints.get(known..).unwrap_or(&[]);
    is_found(&case.constraints, new, &below, Depth::Near, alloc)
}
