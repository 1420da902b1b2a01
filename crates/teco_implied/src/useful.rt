//! Which constraints multipliers can be of.

use crate::fault::ImpliedFault;
use crate::relevant::{greatest_symbol, most_symbol};
use std::alloc::Global;
use teco_linear::Form;

// With which signs a symbol stands in some forms.
#[derive(Clone, Copy)]
struct Signs {
    is_above: bool,
    is_below: bool,
}

impl Signs {
    // Whether it stands with one sign alone, so that nothing can take it away.
    fn is_alone(self) -> bool {
        self.is_above != self.is_below
    }
}

// Adds those of a form, or where it is to be made up, the others.
fn add_signs(signs: &mut [Signs], form: &Form, is_wanted: bool) {
    for term in form.terms() {
        let Some(symbol) = term.symbol else {
            continue;
        };
        if let Some(sign) = signs.get_mut(symbol as usize) {
            if (term.coefficient > 0) == is_wanted {
                sign.is_below = true;
            } else {
                sign.is_above = true;
            }
        }
    }
}

// Whether each symbol of a form can be taken away.
fn is_balanced(signs: &[Signs], form: &Form) -> bool {
    form.terms().iter().all(|term| match term.symbol {
        Some(symbol) => signs
            .get(symbol as usize)
            .is_none_or(|sign| !sign.is_alone()),
        None => true,
    })
}

// The signs of symbols in constraints, and those that the target asks for.
fn signs_of(
    constraints: &[Form],
    places: &[usize],
    target: &Form,
    alloc: Global,
) -> Result<Vec<Signs>, ImpliedFault> {
    let most = most_symbol(constraints).max(greatest_symbol(target));
    let none = Signs {
        is_above: false,
        is_below: false,
    };
    let mut signs = Vec::from_elem(alloc, none, most as usize + 1)?;
    for place in places {
        if let Some(constraint) = constraints.get(*place) {
            add_signs(&mut signs, constraint, false);
        }
    }
    add_signs(&mut signs, target, true);
    Ok(signs)
}

/// Those of some constraints that multipliers for a target can be of: a symbol that stands with one
/// sign alone cannot be taken away. None where the target has such a symbol.
pub fn useful(
    constraints: &[Form],
    places: &[usize],
    target: &Form,
    alloc: Global,
) -> Result<Option<Vec<usize>>, ImpliedFault> {
    let mut left = Vec::from_slice(alloc, places)?;
    for _ in 0..places.len() {
        let signs = signs_of(constraints, &left, target, alloc)?;
        if !is_balanced(&signs, target) {
            return Ok(None);
        }
        let before = left.len();
        left.retain(|place| constraints
            .get(*place)
            .is_some_and(|form| is_balanced(&signs, form)));
        if left.len() == before {
            break;
        }
    }
    Ok(Some(left))
}
