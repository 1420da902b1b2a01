//! Which claims have a text.
ghost use Rattle.std.specs.Prelude.{◌≡◌, ◌<◌, ◌↔◌, ◌^◌, ◌*◌, ◌++◌, ◌∷◌, [], IsTrue, IfSome};
ghost use Rattle.std.specs.Int.{IsGcd};
ghost use Rattle.teco_claims.specs.Spelled.{IsMeasure, IsLowest, IsTerm, TermsRise, AreTerms};
ghost use Rattle.teco_claims.specs.Spelled.{single_place, measure_place, place as place_of, StandsBefore};

use crate::term::{ClaimMeasure, ClaimSingle, ClaimTerm, Fraction, MAX_POWER, MAX_TERMS};
use teco_base::REGISTERS;

// The greatest number that divides both.
fn greatest_divisor(first: u128, second: u128) -> u128
    ensures { IsGcd first second result }
{
    let mut greater = first;
    let mut less = second;
    'steps: while less != 0 {
        let rest = greater % less;
        greater = less;
        less = rest;
    }
    greater
}

// Does no number above 1 divide both?
fn have_no_divisor(first: u128, second: u128) -> bool
    ensures { IsTrue result ↔ IsGcd first second 1 }
{
    greatest_divisor(first, second) == 1
}

// Is it above 0, in lowest terms, and of numbers that a signed one of 128 bits holds?
fn is_lowest(fraction: Fraction) -> bool
    ensures { IsTrue result ↔ IsLowest fraction }
{
    let (numerator, divisor) = (fraction.numerator, fraction.divisor);
    let small = 1 << 127;
    0 < numerator && numerator < small && divisor < small && have_no_divisor(numerator, divisor)
}

// Has it a register that there is, or a place of 32 bits?
fn is_measure(measure: ClaimMeasure) -> bool
    ensures { IsTrue result ↔ IsMeasure measure }
{
    match measure {
        ClaimMeasure::One(_) => true,
        ClaimMeasure::Number(register) | ClaimMeasure::Length(register) => register.index()
            < REGISTERS,
        ClaimMeasure::Turns(number)
        | ClaimMeasure::PushedNumber(number)
        | ClaimMeasure::PushedLength(number) => { number <= u32::MAX }
    }
}

// Is a measure, if there is one, one that has a name?
fn is_name(measure: Option<ClaimMeasure>) -> bool
    ensures { IsTrue result ↔ IfSome measure IsMeasure }
{
    match measure {
        None => true,
        Some(measure) => is_measure(measure),
    }
}

// Has a term a text?
fn is_term(term: &ClaimTerm) -> bool
    ensures { IsTrue result ↔ IsTerm term.now }
{
    is_lowest(term.coefficient) && term.power <= MAX_POWER && is_name(term.measure)
}

// Where a measure that a state has once stands among the others.
fn place_of_single(single: ClaimSingle) -> u128
    ensures value { result ≡ single_place single }
    ensures within { result < 14 }
{
    match single {
        ClaimSingle::Steps => 1,
        ClaimSingle::LineEnd => 2,
        ClaimSingle::Held => 3,
        ClaimSingle::EntryHeld => 4,
        ClaimSingle::LastLength => 6,
        ClaimSingle::Typed => 7,
        ClaimSingle::Pointer => 8,
        ClaimSingle::LineStart => 11,
        ClaimSingle::Size => 13,
    }
}

// Where a measure stands among the others.
fn place_of_measure(measure: ClaimMeasure) -> u128
    ensures value { result ≡ measure_place measure }
    ensures within { result < 2 ^ 64 }
{
    const STEP: u128 = 1 << 33;
    match measure {
        ClaimMeasure::One(single) => place_of_single(single) * STEP,
        ClaimMeasure::PushedNumber(pair) => 5 * STEP + 2 * u128::from(pair),
        ClaimMeasure::PushedLength(pair) => 5 * STEP + (2 * u128::from(pair) + 1),
        ClaimMeasure::Number(register) => 9 * STEP + register.index() as u128,
        ClaimMeasure::Turns(begin) => 10 * STEP + u128::from(begin),
        ClaimMeasure::Length(register) => 12 * STEP + register.index() as u128,
    }
}

// Where a term stands among the others, but for the power of N.
fn place(measure: Option<ClaimMeasure>) -> u128
    ensures value { result ≡ place_of measure }
    ensures within { result < 2 ^ 64 }
{
    match measure {
        None => 0,
        Some(measure) => place_of_measure(measure),
    }
}

// Does a term stand before another?
fn stands_before(term: &ClaimTerm, next: &ClaimTerm) -> bool
    ensures { IsTrue result ↔ StandsBefore term.now next.now }
{
    const STEP: u128 = 1 << 32;
    let (power, behind) = (u128::from(term.power), u128::from(next.power));
    place(term.measure) * STEP + power < place(next.measure) * STEP + behind
}

// Does a term stand behind these, which stand in order?
fn is_behind(term: &ClaimTerm, terms: &[ClaimTerm]) -> bool
    requires { TermsRise terms.now }
    ensures { IsTrue result ↔ TermsRise (terms.now ++ term.now ∷ []) }
{
    match terms.last() {
        Some(last) => stands_before(last, term),
        None => true,
    }
}

/// May this be the next term of a claim?
pub fn is_next(term: &ClaimTerm, terms: &[ClaimTerm]) -> bool
    requires { AreTerms terms.now }
    ensures { IsTrue result ↔ AreTerms (terms.now ++ term.now ∷ []) }
{
    terms.len() < MAX_TERMS && is_term(term) && is_behind(term, terms)
}
