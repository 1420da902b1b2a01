//! Values of symbols at which constraints hold and a target does not: then no multipliers show it.

use crate::fault::ImpliedFault;
use crate::relevant::{greatest_symbol, most_symbol};
use crate::shifted::less;
use std::alloc::Global;
use teco_linear::{Form, Term};

// How often all constraints are gone through.
const PASSES: usize = 8;

// The value that N has.
const LENGTH: i64 = 1000;

// A value for each symbol.
#[derive(Drop)]
struct Point {
    values: Vec<i64>,
}

// What a term's symbol is taken times, if that fits 64 bits.
fn factor_of(term: &Term) -> Option<i64> {
    let mut factor = i64::try_from(term.coefficient).ok()?;
    for _ in 0..term.power {
        factor = factor.checked_mul(LENGTH)?;
    }
    Some(factor)
}

// How often a number above 0 is taken to come to another or beyond.
fn rounded_up(more: i64, size: i64) -> Option<i64> {
    more.checked_add(size.checked_sub(1)?)?.checked_div(size)
}

impl Point {
    // The value of a symbol.
    fn at(&self, symbol: u32) -> i64 {
        match self.values.get(symbol as usize) {
            Some(value) => *value,
            None => 0,
        }
    }

    // The value of a term.
    fn value_of(&self, term: &Term) -> Option<i64> {
        let factor = factor_of(term)?;
        match term.symbol {
            Some(symbol) => factor.checked_mul(self.at(symbol)),
            None => Some(factor),
        }
    }

    // The value of a form.
    fn value(&self, form: &Form) -> Option<i64> {
        let mut sum = 0i64;
        for term in form.terms() {
            sum = sum.checked_add(self.value_of(term)?)?;
        }
        Some(sum)
    }

    // Changes the value of a term's symbol so that the term is so much more.
    fn change(&mut self, term: &Term, more: i64) -> Option<()> {
        let symbol = term.symbol?;
        let factor = factor_of(term)?;
        let steps = rounded_up(more, factor.checked_abs()?)?;
        let slot = self.values.get_mut(symbol as usize)?;
        let changed = if factor > 0 {
            slot.checked_add(steps)
        } else {
            slot.checked_sub(steps)
        };
        *slot = changed?;
        Some(())
    }

    // Takes it that a form is so much more: by a symbol that is added, or else by one that is taken away.
    fn raise(&mut self, form: &Form, more: i64) -> Option<()> {
        let mut found: Option<Term> = None;
        for term in form.terms() {
            if term.symbol.is_some() && (found.is_none() || term.coefficient > 0) {
                found = Some(*term);
            }
        }
        self.change(&found?, more)
    }

    // Mends a form that is below 0; says whether it was, if its value is told.
    fn mend(&mut self, form: &Form) -> Option<bool> {
        let value = self.value(form)?;
        if value >= 0 {
            return Some(false);
        }
        self.raise(form, value.checked_neg()?)?;
        Some(true)
    }

    // Mends all constraints at these places and another; says whether one was below 0.
    fn pass(&mut self, constraints: &[Form], places: &[usize], other: &Form) -> Option<bool> {
        let mut is_mended = self.mend(other)?;
        for place in places {
            if let Some(constraint) = constraints.get(*place) {
                is_mended = self.mend(constraint)? || is_mended;
            }
        }
        Some(is_mended)
    }

    // Whether all constraints and another are mended, and none is below 0 then.
    fn is_mended(&mut self, constraints: &[Form], places: &[usize], other: &Form) -> bool {
        for _ in 0..PASSES {
            match self.pass(constraints, places, other) {
                Some(true) => {}
                Some(false) => return true,
                None => return false,
            }
        }
        false
    }
}

/// Whether values are found at which the constraints at these places hold, and the target does not.
pub fn is_refuted(
    constraints: &[Form],
    places: &[usize],
    target: &Form,
    alloc: Global,
) -> Result<bool, ImpliedFault> {
    let most = most_symbol(constraints).max(greatest_symbol(target));
    let mut point = Point {
        values: Vec::from_elem(alloc, 0i64, most as usize + 1)?,
    };
    let one_below = Form::constant(-1, alloc)?;
    match less(&one_below, target, alloc)? {
        Some(below) => Ok(point.is_mended(constraints, places, &below)),
        None => Ok(false),
    }
}
