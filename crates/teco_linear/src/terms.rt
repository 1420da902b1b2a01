// Arithmetic on the terms of forms, which stand in order: by symbol, and then by power.
ghost use Rattle.std.specs.Prelude.{◌≡◌, ◌≤◌, ◌↔◌, ℕ, ℤ, ◌+ℤ◌, ◌-ℤ◌, ◌*ℤ◌, IfOk, OnOk, IsTrue, vec_len, length};
ghost use Rattle.std.specs.List.{All};
ghost use Rattle.teco_linear.specs.Form.{Valuation, scale_value, term_value, value, IsHarmless};

use crate::fault::LinearFault;
use crate::form::MAX_TERMS;
use crate::term::{Scale, Term};
use std::alloc::Global;

// Adds a term at the end, if it is not 0.
fn push(sum: &mut Vec<Term>, term: Term) -> Result<(), LinearFault>
    requires { vec_len sum.old ≤ MAX_TERMS }
    ensures value { OnOk result ((n : ℕ) (v : Valuation)
        → value sum.new.items n v ≡ value sum.old.items n v +ℤ term_value term n v) }
    ensures length { OnOk result (vec_len sum.new ≤ MAX_TERMS) }
{
    if term.coefficient == 0 {
        return Ok(());
    }
    if sum.len() == MAX_TERMS {
        return Err(LinearFault::TooManyTerms);
    }
    sum.push(term)?;
    Ok(())
}

// Adds terms at the end.
fn extend(sum: &mut Vec<Term>, terms: &[Term]) -> Result<(), LinearFault>
    requires { vec_len sum.old ≤ MAX_TERMS }
    ensures value { OnOk result ((n : ℕ) (v : Valuation)
        → value sum.new.items n v ≡ value sum.old.items n v +ℤ value terms.now n v) }
    ensures length { OnOk result (vec_len sum.new ≤ MAX_TERMS) }
{
    if terms.len() > MAX_TERMS - sum.len() {
        return Err(LinearFault::TooManyTerms);
    }
    sum.extend_from_slice(terms)?;
    Ok(())
}

// The terms of the sum of two forms. Terms of one symbol and power become one.
pub fn sum(left: &[Term], right: &[Term], alloc: Global) -> Result<Vec<Term>, LinearFault>
    ensures value { IfOk result (λ sum. (n : ℕ) (v : Valuation)
        → value sum.items n v ≡ value left.now n v +ℤ value right.now n v) }
    ensures length { IfOk result (λ sum. vec_len sum ≤ MAX_TERMS) }
{
    let mut sum = Vec::with_capacity(alloc, left.len().saturating_add(right.len()))?;
    let (mut i, mut j) = (0, 0);
    'terms: while i < left.len() && j < right.len() {
        let (first, second) = (left[i], right[j]);
        if first.is_like(&second) {
            push(&mut sum, first.plus(&second)?)?;
            i += 1;
            j += 1;
        } else if first.precedes(&second) {
            push(&mut sum, first)?;
            i += 1;
        } else {
            push(&mut sum, second)?;
            j += 1;
        }
    }
    extend(&mut sum, &left[i..])?;
    extend(&mut sum, &right[j..])?;
    Ok(sum)
}

// The terms of a form times `scale`.
pub fn scaled(terms: &[Term], scale: &Scale, alloc: Global) -> Result<Vec<Term>, LinearFault>
    requires { length terms.now ≤ MAX_TERMS }
    ensures value { IfOk result (λ scaled. (n : ℕ) (v : Valuation)
        → value scaled.items n v ≡ scale_value scale.now n *ℤ value terms.now n v) }
    ensures length { IfOk result (λ scaled. vec_len scaled ≤ MAX_TERMS) }
{
    let mut scaled = Vec::with_capacity(alloc, terms.len())?;
    for term in terms {
        push(&mut scaled, term.scaled(scale)?)?;
    }
    Ok(scaled)
}

// The terms of a form less another.
pub fn difference(left: &[Term], right: &[Term], alloc: Global) -> Result<Vec<Term>, LinearFault>
    requires { length right.now ≤ MAX_TERMS }
    ensures value { IfOk result (λ difference. (n : ℕ) (v : Valuation)
        → value difference.items n v ≡ value left.now n v -ℤ value right.now n v) }
    ensures length { IfOk result (λ difference. vec_len difference ≤ MAX_TERMS) }
{
    let minus_one = Scale {
        factor: -1,
        power: 0,
    };
    let negated = scaled(right, &minus_one, alloc)?;
    let difference = sum(left, &negated, alloc)?;
    Ok(difference)
}

// Whether no term has a symbol or a negative coefficient.
pub fn are_harmless(terms: &[Term]) -> bool
    ensures { IsTrue result ↔ All IsHarmless terms.now }
{
    terms.iter().all(|term| term.is_harmless())
}
