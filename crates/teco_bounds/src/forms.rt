//! Forms over the places of measures, and over symbols.
use crate::workspace::{Stop, Workspace};
use teco_linear::{Form, Scale, Term};

// The form in a place, if there is one.
pub fn form_in(forms: &[Option<Form>], place: u32) -> Option<&Form> {
    match forms.get(place as usize) {
        Some(Some(form)) => Some(form),
        _ => None,
    }
}

// The number of a form that stands alone.
pub fn constant(form: &Form) -> i128 {
    for term in form.terms() {
        if term.symbol.is_none() && term.power == 0 {
            return term.coefficient;
        }
    }
    0
}

// N times a number, to a power.
pub fn power_of(power: u32, coefficient: i128, space: &mut Workspace) -> Form {
    space.term(Term {
        symbol: None,
        power,
        coefficient,
    })
}

// A symbol, or none, and a number.
pub fn shifted(symbol: Option<u32>, more: i64, space: &mut Workspace) -> Form {
    match symbol {
        Some(symbol) if more == 0 => space.symbol(symbol),
        Some(symbol) => {
            let form = space.symbol(symbol);
            let number = space.constant(i128::from(more));
            space.sum(&form, &number)
        }
        None => space.constant(i128::from(more)),
    }
}

// A term, with its measure's form in place of the measure.
fn term_at(term: &Term, forms: &[Option<Form>], space: &mut Workspace) -> Form {
    let scale = Scale {
        factor: term.coefficient,
        power: term.power,
    };
    match term.symbol {
        Some(place) => match form_in(forms, place) {
            Some(form) if scale.factor == 1 && scale.power == 0 => space.copied(form),
            Some(form) => space.scaled(form, &scale),
            None => {
                space.stop(Stop::TooMuch);
                Form::zero(space.alloc)
            }
        },
        None => space.term(*term),
    }
}

// A form over the places of measures, where they are given by forms.
pub fn at_forms(form: &Form, forms: &[Option<Form>], space: &mut Workspace) -> Form {
    let [first, others @ ..] = form.terms() else {
        return Form::zero(space.alloc);
    };
    let mut sum = term_at(first, forms, space);
    for term in others {
        let part = term_at(term, forms, space);
        sum = space.sum(&sum, &part);
    }
    sum
}
