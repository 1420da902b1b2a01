// Linear forms.
ghost use Rattle.std.specs.Prelude.{◌≡◌, ◌<◌, ◌≤◌, ◌↔◌, ℕ, ℤ, pos, [], ◌+ℤ◌, ◌-ℤ◌, ◌*ℤ◌, IfOk, IfErr, IsTrue, length};
ghost use Rattle.std.specs.Prelude.{vec_len};
ghost use Rattle.std.specs.List.{All};
ghost use Rattle.teco_linear.specs.Form.{Valuation, scale_value, term_value, value, values, form_in_place, IsHarmless};

use crate::fault::LinearFault;
use crate::term::{MAX_POWER, Scale, Term};
use crate::terms;
use std::alloc::Global;
use std::marker::Model;
use std::rc::Rc;

/// The most terms that a form may have.
pub const MAX_TERMS: usize = 4096;

/// A linear form: a sum of whole numbers times powers of N times symbols. As a constraint it says
/// that its value is at least 0. Copies share their terms, which never change.
#[derive(Drop)]
pub struct Form {
    terms: Option<Rc<Vec<Term>>>,
}

impl Model for Form {
    ghost use Rattle.std.specs.Prelude.{List, ◌≤◌, length};
    ghost use Rattle.teco_linear.specs.declared.term.Term.{Term};
    ghost use Rattle.teco_linear.specs.declared.form.TheConstants.{MAX_TERMS};
    ghost use Rattle.teco_linear.specs.Shared.{terms_in};

    ghost Value = { List Term };

    ghost view = { λ f. terms_in f.terms };

    ghost invariant = { λ f. length (terms_in f.terms) ≤ MAX_TERMS };
}

impl Form {
    /// The form that is 0.
    pub fn zero(_alloc: Global) -> Form
        ensures { result ≡ [] }
    {
        Form { terms: None }
    }

    // The form of these terms.
    fn of_terms(terms: Vec<Term>, alloc: Global) -> Result<Form, LinearFault>
        requires { vec_len terms ≤ MAX_TERMS }
        ensures same { IfOk result (λ form. form ≡ terms.items) }
        ensures memory { IfErr result (λ fault. fault ≡ LinearFault.Memory) }
    {
        let shared = Rc::new(alloc, terms)?;
        Ok(Form {
            terms: Some(shared),
        })
    }

    /// The form of one term; refused where its power is above `MAX_POWER`.
    pub fn term(term: Term, alloc: Global) -> Result<Form, LinearFault>
        ensures value { IfOk result (λ form. (n : ℕ) (v : Valuation)
            → value form n v ≡ term_value term n v) }
        ensures high { (result ≡ Err LinearFault.PowerTooHigh) ↔ (MAX_POWER < term.power) }
    {
        if term.power > MAX_POWER {
            return Err(LinearFault::PowerTooHigh);
        }
        if term.coefficient == 0 {
            return Ok(Form::zero(alloc));
        }
        let mut terms = Vec::with_capacity(alloc, 1)?;
        terms.push(term)?;
        Form::of_terms(terms, alloc)
    }

    /// The form that is this number.
    pub fn constant(number: i128, alloc: Global) -> Result<Form, LinearFault>
        ensures { IfOk result (λ form. (n : ℕ) (v : Valuation) → value form n v ≡ number) }
    {
        let one = Term {
            symbol: None,
            power: 0,
            coefficient: number,
        };
        Form::term(one, alloc)
    }

    /// The form that is this symbol.
    pub fn symbol(symbol: u32, alloc: Global) -> Result<Form, LinearFault>
        ensures { IfOk result (λ form. (n : ℕ) (v : Valuation) → value form n v ≡ v symbol) }
    {
        let once = Term {
            symbol: Some(symbol),
            power: 0,
            coefficient: 1,
        };
        Form::term(once, alloc)
    }

    /// A copy of the form.
    pub fn copied(&self, _alloc: Global) -> Result<Form, LinearFault>
        ensures { IfOk result (λ copy. copy ≡ self.now) }
    {
        match &self.terms {
            None => Ok(Form { terms: None }),
            Some(shared) => Ok(Form {
                terms: Some(shared.clone()?),
            }),
        }
    }

    /// The terms, by symbol and then by power. None has the coefficient 0.
    pub fn terms(&self) -> &[Term]
        ensures { result.now ≡ self.now }
    {
        self.few_terms()
    }

    // The terms, of which there are not too many.
    fn few_terms(&self) -> &[Term]
        ensures same { result.now ≡ self.now }
        ensures length { length result.now ≤ MAX_TERMS }
    {
        match &self.terms {
            None => &[],
            Some(shared) => shared.as_slice(),
        }
    }

    /// The sum. It is refused where a coefficient passes 128 bits, or there are too many terms.
    pub fn add(&self, other: &Form, alloc: Global) -> Result<Form, LinearFault>
        ensures { IfOk result (λ sum. (n : ℕ) (v : Valuation)
            → value sum n v ≡ value self.now n v +ℤ value other.now n v) }
    {
        let terms = terms::sum(self.terms(), other.terms(), alloc)?;
        Form::of_terms(terms, alloc)
    }

    /// The difference. It is refused as a sum is.
    pub fn sub(&self, other: &Form, alloc: Global) -> Result<Form, LinearFault>
        ensures { IfOk result (λ difference. (n : ℕ) (v : Valuation)
            → value difference n v ≡ value self.now n v -ℤ value other.now n v) }
    {
        let terms = terms::difference(self.few_terms(), other.few_terms(), alloc)?;
        Form::of_terms(terms, alloc)
    }

    /// The product with `scale`. It is refused where a coefficient passes 128 bits, or a power
    /// `MAX_POWER`.
    pub fn scaled(&self, scale: &Scale, alloc: Global) -> Result<Form, LinearFault>
        ensures { IfOk result (λ product. (n : ℕ) (v : Valuation)
            → value product n v ≡ scale_value scale.now n *ℤ value self.now n v) }
    {
        let terms = terms::scaled(self.few_terms(), scale, alloc)?;
        Form::of_terms(terms, alloc)
    }

    /// The form with forms in place of its symbols, as a claim on the measures of a state becomes one
    /// on the symbols that the measures are given by. The form at a symbol's number stands for it;
    /// a symbol without one is refused, and a sum and a product as ever.
    pub fn substitute(&self, forms: &[Form], alloc: Global) -> Result<Form, LinearFault>
        ensures { IfOk result (λ form. (n : ℕ) (v : Valuation)
            → value form n v ≡ value self.now n (values forms.now n v)) }
    {
        let terms = substituted(self.terms(), forms, alloc)?;
        Form::of_terms(terms, alloc)
    }

    /// Whether it has no symbol and no negative coefficient, and so is never below 0.
    pub fn is_harmless(&self) -> bool
        ensures { IsTrue result ↔ All IsHarmless self.now }
    {
        terms::are_harmless(self.terms())
    }
}

// The sum of terms in which forms stand for the symbols.
fn substituted(terms: &[Term], forms: &[Form], alloc: Global) -> Result<Vec<Term>, LinearFault>
    ensures value { IfOk result (λ sum. (n : ℕ) (v : Valuation)
        → value sum.items n v ≡ value terms.now n (values forms.now n v)) }
    ensures length { IfOk result (λ sum. vec_len sum ≤ MAX_TERMS) }
{
    let one = Form::constant(1, alloc)?;
    let mut sum = Vec::new(alloc);
    for term in terms {
        let form = in_place(term.symbol, &one, forms)?;
        let product = terms::scaled(form.few_terms(), &term.scale(), alloc)?;
        sum = terms::sum(&sum, &product, alloc)?;
    }
    Ok(sum)
}

// What stands for a symbol, or for none.
fn in_place<'a>(
    symbol: Option<u32>,
    one: &'a Form,
    forms: &'a [Form],
) -> Result<&'a Form, LinearFault>
    ensures { IfOk result (λ form. form.now ≡ form_in_place one.now forms.now symbol) }
{
    match symbol {
        None => Ok(one),
        Some(symbol) => match forms.get(symbol as usize) {
            Some(form) => Ok(form),
            None => Err(LinearFault::UnknownSymbol),
        },
    }
}
