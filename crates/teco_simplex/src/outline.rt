//! What is known of terms without looking through them.
use crate::program::Summand;

#[derive(Clone, Copy)]
pub struct Outline {
    // The marks of the variables, and maybe of others: one that has no mark is in no term.
    marks: u64,
    // The binary digits of all coefficients without their signs; all where a coefficient has more than 64.
    pub digits: u64,
    // Whether a coefficient is 1 or -1.
    pub has_unit: bool,
}

// The mark of a variable, which some others have too.
fn mark_of(variable: usize) -> u64 {
    1 << (variable % 64)
}

impl Outline {
    // The outline of no terms.
    pub fn new() -> Outline {
        Outline {
            marks: 0,
            digits: 0,
            has_unit: false,
        }
    }

    pub fn of(terms: &[Summand]) -> Outline {
        let mut outline = Outline::new();
        for term in terms {
            match i64::try_from(term.coefficient) {
                Ok(coefficient) => outline.add(term.variable, coefficient),
                Err(_) => {
                    outline.add(term.variable, 0);
                    outline.digits = u64::MAX;
                }
            }
        }
        outline
    }

    // Takes in a term.
    pub fn add(&mut self, variable: usize, coefficient: i64) {
        let size = coefficient.unsigned_abs();
        self.marks |= mark_of(variable);
        self.digits |= size;
        self.has_unit |= size == 1;
    }

    // Whether the variable may be in a term.
    pub fn may_have(&self, variable: usize) -> bool {
        self.marks & mark_of(variable) != 0
    }
}
