//! What the terms of forms are multiples of.

use crate::fault::ImpliedFault;
use std::alloc::Global;
use teco_linear::{Form, Term};

/// A symbol or none, times a power of N.
#[derive(Clone, Copy, PartialEq, Eq)]
pub struct Monomial {
    pub symbol: Option<u32>,
    pub power: u32,
}

/// The kind of constants.
pub const CONSTANT: Monomial = Monomial {
    symbol: None,
    power: 0,
};

impl Monomial {
    /// That of a term.
    pub fn of(term: &Term) -> Monomial {
        Monomial {
            symbol: term.symbol,
            power: term.power,
        }
    }

    /// How often it is in a form.
    pub fn coefficient(self, form: &Form) -> i128 {
        for term in form.terms() {
            if self == Monomial::of(term) {
                return term.coefficient;
            }
        }
        0
    }
}

/// The place of a kind among others, where it is added if it is not there.
pub fn placed(kinds: &mut Vec<Monomial>, kind: Monomial) -> Result<usize, ImpliedFault> {
    for place in 0..kinds.len() {
        if kinds[place] == kind {
            return Ok(place);
        }
    }
    let place = kinds.len();
    kinds.push(kind)?;
    Ok(place)
}

/// The highest power of N that stands at a symbol in some forms.
pub fn highest(forms: &[Form]) -> u32 {
    let mut most = 0;
    for form in forms {
        most = most.max(highest_in(form));
    }
    most
}

/// The highest power of N that stands at a symbol in a form.
pub fn highest_in(form: &Form) -> u32 {
    let mut most = 0;
    for term in form.terms() {
        if term.symbol.is_some() {
            most = most.max(term.power);
        }
    }
    most
}

/// The highest power of N that stands at no symbol in a form.
pub fn highest_alone(form: &Form) -> u32 {
    let mut most = 0;
    for term in form.terms() {
        if term.symbol.is_none() {
            most = most.max(term.power);
        }
    }
    most
}

/// The kinds of these forms, each once, that of constants first.
pub fn kinds_of(forms: &[&Form], alloc: Global) -> Result<Vec<Monomial>, ImpliedFault> {
    let mut kinds = Vec::new(alloc);
    kinds.push(CONSTANT)?;
    for form in forms {
        for term in form.terms() {
            placed(&mut kinds, Monomial::of(term))?;
        }
    }
    Ok(kinds)
}
