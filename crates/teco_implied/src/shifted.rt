//! A constraint that is no bound on a difference, and a chain of those that are.

use crate::chains::{Graph, is_difference};
use crate::fault::ImpliedFault;
use crate::kinds::{CONSTANT, Monomial};
use std::alloc::Global;
use teco_linear::{Form, LinearFault, Term};

/// A constraint that is taken once, and a chain of others that are taken so many times.
#[derive(Drop)]
pub struct Shifted {
    pub constraint: usize,
    pub chain: Vec<usize>,
    pub times: u64,
}

/// A form less another, if numbers hold it.
pub fn less(form: &Form, other: &Form, alloc: Global) -> Result<Option<Form>, ImpliedFault> {
    match form.sub(other, alloc) {
        Ok(left) => Ok(Some(left)),
        Err(LinearFault::Memory) => Err(ImpliedFault::Memory),
        Err(_) => Ok(None),
    }
}

// How often a form bounds a difference, if it does that times a number.
fn times_of(form: &Form) -> Option<i128> {
    for term in form.terms() {
        if Monomial::of(term) != CONSTANT {
            return term.coefficient.checked_abs();
        }
    }
    None
}

// A form divided by a number above 0, its constant rounded down; none where another term is no
// multiple.
fn divided(form: &Form, times: i128, alloc: Global) -> Result<Option<Form>, ImpliedFault> {
    let mut quotient = Form::zero(alloc);
    for term in form.terms() {
        let rest = term.coefficient.checked_rem(times);
        let whole = term.coefficient.checked_div(times).unwrap_or(0);
        let coefficient = match rest {
            Some(0) => whole,
            Some(less) if less < 0 && Monomial::of(term) == CONSTANT => whole.saturating_sub(1),
            Some(_) if Monomial::of(term) == CONSTANT => whole,
            _ => return Ok(None),
        };
        let part = Form::term(
            Term {
                coefficient,
                ..*term
            },
            alloc,
        )?;
        quotient = quotient.add(&part, alloc)?;
    }
    Ok(Some(quotient))
}

// A chain that shows what is left of a target behind a constraint, taken so often.
fn chain_for(
    graph: &mut Graph,
    left: &Form,
    alloc: Global,
) -> Result<Option<(Vec<usize>, u64)>, ImpliedFault> {
    if left.is_harmless() {
        return Ok(Some((Vec::new(alloc), 1)));
    }
    let Some(times) = times_of(left) else {
        return Ok(None);
    };
    let Some(once) = divided(left, times, alloc)? else {
        return Ok(None);
    };
    let Ok(often) = u64::try_from(times) else {
        return Ok(None);
    };
    if !is_difference(&once) {
        return Ok(None);
    }
    match graph.chain(&once, alloc)? {
        Some(chain) => Ok(Some((chain, often))),
        None => Ok(None),
    }
}

// How many symbols' terms of some are not among others.
fn apart(terms: &[Term], others: &[Term]) -> usize {
    terms
        .iter()
        .filter(|term| term.symbol.is_some() && !others.contains(term))
        .count()
}

// How many kinds of symbols' terms of some are no kinds of a form's.
fn foreign(terms: &[Term], form: &Form) -> usize {
    terms
        .iter()
        .filter(|term| term.symbol.is_some() && Monomial::of(term).coefficient(form) == 0)
        .count()
}

// Whether more than two symbols stay of a target behind a constraint, so that no chain shows what is left.
fn is_far(target: &Form, constraint: &Form) -> bool {
    let changed = apart(target.terms(), constraint.terms());
    let added = foreign(constraint.terms(), target);
    changed.saturating_add(added) > 2
}

// What of a target is left behind a constraint that is no bound on a difference.
fn left_behind(
    constraints: &[Form],
    place: usize,
    target: &Form,
    alloc: Global,
) -> Result<Option<Form>, ImpliedFault> {
    match constraints.get(place) {
        Some(constraint) if !is_difference(constraint) && !is_far(target, constraint) => {
            less(target, constraint, alloc)
        }
        _ => Ok(None),
    }
}

/// Looks for a constraint at these places that shows a target, once a chain is added.
pub fn with_chain(
    constraints: &[Form],
    places: &[usize],
    target: &Form,
    graph: &mut Graph,
    alloc: Global,
) -> Result<Option<Shifted>, ImpliedFault> {
    for place in places {
        let Some(left) = left_behind(constraints, *place, target, alloc)? else {
            continue;
        };
        if let Some((chain, times)) = chain_for(graph, &left, alloc)? {
            return Ok(Some(Shifted {
                constraint: *place,
                chain,
                times,
            }));
        }
    }
    Ok(None)
}
