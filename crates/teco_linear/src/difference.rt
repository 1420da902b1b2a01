// Forms that bound the difference of two symbols.
ghost use Rattle.std.specs.Prelude.{◌≡◌, ℕ, ◌+ℤ◌, IfSome};
ghost use Rattle.teco_linear.specs.Form.{Valuation, term_value, value};
ghost use Rattle.teco_linear.specs.Difference.{slack};

use crate::form::Form;
use crate::term::Term;

/// That one symbol is above another by at most a number: `left` - `right` <= `most`. No symbol
/// stands for 0.
#[derive(Clone, Copy)]
pub struct Difference {
    pub left: Option<u32>,
    pub right: Option<u32>,
    pub most: i128,
}

impl Difference {
    /// What a form says as a constraint, where that is a bound on a difference: where it is a
    /// number, plus a symbol at most, less a symbol at most, without N.
    pub fn of(form: &Form) -> Option<Difference>
        ensures { IfSome result (λ difference. (n : ℕ) (v : Valuation)
            → value form.now n v ≡ slack difference v) }
    {
        sum(form.terms())
    }

    // The difference with a term more on the side of `most`.
    fn with(&self, term: &Term) -> Option<Difference>
        ensures { IfSome result (λ difference. (n : ℕ) (v : Valuation)
            → slack difference v ≡ slack self.now v +ℤ term_value term.now n v) }
    {
        if term.power != 0 {
            return None;
        }
        match term.symbol {
            None => Some(Difference {
                left: self.left,
                right: self.right,
                most: self.most.checked_add(term.coefficient)?,
            }),
            Some(_) if term.coefficient == 1 && self.right.is_none() => Some(Difference {
                left: self.left,
                right: term.symbol,
                most: self.most,
            }),
            Some(_) if term.coefficient == -1 && self.left.is_none() => Some(Difference {
                left: term.symbol,
                right: self.right,
                most: self.most,
            }),
            Some(_) => None,
        }
    }
}

// The difference that the terms make, from 0 <= 0 on.
fn sum(terms: &[Term]) -> Option<Difference>
    ensures { IfSome result (λ difference. (n : ℕ) (v : Valuation)
        → value terms.now n v ≡ slack difference v) }
{
    let mut difference = Difference {
        left: None,
        right: None,
        most: 0,
    };
    for term in terms {
        difference = difference.with(term)?;
    }
    Some(difference)
}
