//! Claims as they are read, as cut points.
ghost use Rattle.std.specs.Prelude.{◌≡◌, ◌<◌, ◌≤◌, ◌*◌, ℕ, length, Some, IfOk, IfSome};
ghost use Rattle.std.specs.List.{All, Any};
ghost use Rattle.teco_linear.specs.Form.{term_value, value};
ghost use Rattle.teco_linear.specs.Implied.{Holds};
ghost use Rattle.teco_paths.specs.Claims.{ClaimHolds};
ghost use Rattle.teco_paths.specs.Meaning.{AreSo, IsMadeOf, IsSo, IsTimes, SayClaims, SpeaksOf, signed, single_meant};
ghost use Rattle.teco_paths.specs.Symbols.{numbers_of};
ghost use Rattle.teco_rows.specs.States.{Point, from_end};
ghost use Rattle.teco_verifier.specs.expansion.Node.{Node, numbered};

use crate::cut::{CutState, copied_shape};
use crate::entry::both;
use crate::fault::PathFault;
use std::alloc::Global;
use teco_expansion::Nodes;
use teco_linear::{Form, Term};
use teco_rows::measure::{Family, Measure, Single};

// The measure that a state has once.
fn single_of(single: teco_claims::ClaimSingle) -> Single
    ensures { result ≡ single_meant single }
{
    match single {
        teco_claims::ClaimSingle::Steps => Single::Steps,
        teco_claims::ClaimSingle::Pointer => Single::Pointer,
        teco_claims::ClaimSingle::Size => Single::Size,
        teco_claims::ClaimSingle::Held => Single::Held,
        teco_claims::ClaimSingle::LineEnd => Single::LineEnd,
        teco_claims::ClaimSingle::LineStart => Single::LineStart,
        teco_claims::ClaimSingle::LastLength => Single::LastLength,
        teco_claims::ClaimSingle::Typed => Single::Typed,
        teco_claims::ClaimSingle::EntryHeld => Single::EntryHeld,
    }
}

// Which of the open iterations begins at an element, from 0 for the outermost.
fn iteration_of(nodes: &Nodes<'_>, number: usize, begin: u32) -> Option<u32>
    requires one { 0 < number }
    requires last { number ≤ length nodes.now }
    ensures { IfSome result (λ i. (node : Node) → numbered nodes.now number ≡ Some node
        → from_end node.stand.iterations i ≡ Some begin) }
{
    let open = nodes.open(number);
    for at in 0..open {
        if nodes.iteration(number, at) == Some(begin as usize) {
            let Ok(place) = u32::try_from(open - 1 - at) else {
                return None;
            };
            return Some(place);
        }
    }
    None
}

// The measure of which is claimed at a node.
fn measure_of(
    nodes: &Nodes<'_>,
    number: usize,
    measure: teco_claims::ClaimMeasure,
) -> Option<Measure>
    requires one { 0 < number }
    requires last { number ≤ length nodes.now }
    ensures { IfSome result (λ m. (node : Node) → numbered nodes.now number ≡ Some node → SpeaksOf node measure m) }
{
    match measure {
        teco_claims::ClaimMeasure::One(single) => Some(Measure::One(single_of(single))),
        teco_claims::ClaimMeasure::Number(register) => {
            Some(Measure::Each(Family::Number, register.index() as u32))
        }
        teco_claims::ClaimMeasure::Length(register) => {
            Some(Measure::Each(Family::Length, register.index() as u32))
        }
        teco_claims::ClaimMeasure::Turns(begin) => {
            let at = iteration_of(nodes, number, begin)?;
            Some(Measure::Each(Family::Turns, at))
        }
        teco_claims::ClaimMeasure::PushedNumber(pair) => Some(Measure::Each(
            Family::PushedNumber,
            pair,
        )),
        teco_claims::ClaimMeasure::PushedLength(pair) => Some(Measure::Each(
            Family::PushedLength,
            pair,
        )),
    }
}

// The greatest common divisor.
fn common(one: u128, other: u128) -> u128 {
    let (mut first, mut second) = (one, other);
    for _ in 0..200 {
        if second == 0 {
            return first;
        }
        (first, second) = (second, first % second);
    }
    1
}

// The least number that all divisors of a claim divide.
fn whole(claim: &teco_claims::Claim) -> Option<u128> {
    let mut least = 1u128;
    for term in &claim.terms {
        let divisor = term.coefficient.divisor;
        let shared = common(least, divisor);
        if shared == 0 {
            return None;
        }
        least = (least / shared).checked_mul(divisor)?;
    }
    Some(least)
}

// The coefficient of a term that is taken so many times, if that makes it whole.
fn coefficient_of(term: &teco_claims::ClaimTerm, times: u128) -> Option<i128>
    ensures { IfSome result (λ coefficient. (parts : ℕ) × (parts * term.now.coefficient.divisor ≡ times)
        × (coefficient ≡ signed term.now.is_negative (parts * term.now.coefficient.numerator))) }
{
    let divisor = term.coefficient.divisor;
    if divisor == 0 || times % divisor != 0 {
        return None;
    }
    let factor = (times / divisor).checked_mul(term.coefficient.numerator)?;
    let Ok(number) = i128::try_from(factor) else {
        return None;
    };
    Some(if term.is_negative { -number } else { number })
}

// A term as one of a form.
fn term_of(
    nodes: &Nodes<'_>,
    number: usize,
    term: &teco_claims::ClaimTerm,
    times: u128,
) -> Option<Term>
    requires one { 0 < number }
    requires last { number ≤ length nodes.now }
    ensures { IfSome result (λ made. (node : Node) → numbered nodes.now number ≡ Some node → (n : ℕ) (s : Point)
        → IsTimes node n s times term.now (term_value made n (numbers_of s))) }
{
    let coefficient = coefficient_of(term, times)?;
    let power = term.power;
    match term.measure {
        None => Some(Term {
            symbol: None,
            power,
            coefficient,
        }),
        Some(measure) => {
            let measure = measure_of(nodes, number, measure)?;
            let Ok(symbol) = u32::try_from(measure.place()) else {
                return None;
            };
            Some(Term {
                symbol: Some(symbol),
                power,
                coefficient,
            })
        }
    }
}

// A term as a form of one term.
fn form_of_term(
    nodes: &Nodes<'_>,
    number: usize,
    term: &teco_claims::ClaimTerm,
    times: u128,
    alloc: Global,
) -> Result<Form, PathFault>
    requires one { 0 < number }
    requires last { number ≤ length nodes.now }
    ensures { IfOk result (λ form. (node : Node) → numbered nodes.now number ≡ Some node → (n : ℕ) (s : Point)
        → IsTimes node n s times term.now (value form n (numbers_of s))) }
{
    match term_of(nodes, number, term, times) {
        Some(term) => Ok(Form::term(term, alloc)?),
        None => Err(PathFault::Unread(number)),
    }
}

// A claim at a node as a form.
fn form_of(
    nodes: &Nodes<'_>,
    number: usize,
    claim: &teco_claims::Claim,
    alloc: Global,
) -> Result<Form, PathFault>
    requires one { 0 < number }
    requires last { number ≤ length nodes.now }
    ensures { IfOk result (λ form. (node : Node) → numbered nodes.now number ≡ Some node → (n : ℕ) (s : Point)
        → Holds n (numbers_of s) form → IsSo node n s claim.now) }
{
    let Some(times) = whole(claim) else {
        return Err(PathFault::Unknown);
    };
    if times == 0 {
        return Err(PathFault::Unknown);
    }
    let mut form = Form::zero(alloc);
    for term in &claim.terms {
        let more = form_of_term(nodes, number, term, times, alloc)?;
        form = form.add(&more, alloc)?;
    }
    Ok(form)
}

// The claims at a node as forms.
fn forms_of(
    nodes: &Nodes<'_>,
    cut: &teco_claims::Cut,
    alloc: Global,
) -> Result<Vec<Form>, PathFault>
    ensures { IfOk result (λ forms. (n : ℕ) (s : Point)
        → All (ClaimHolds n s) forms.items → AreSo nodes.now n s cut.now) }
{
    let number = cut.point;
    if number == 0 || number > nodes.len() {
        return Err(PathFault::NoElement(number));
    }
    let mut claims = Vec::new(alloc);
    for claim in &cut.claims {
        claims.push(form_of(nodes, number, claim, alloc)?)?;
    }
    Ok(claims)
}

// A cut point with the shape that was found there.
fn cut_of(
    nodes: &Nodes<'_>,
    cut: &teco_claims::Cut,
    stand: &CutState,
    used: &[bool],
    alloc: Global,
) -> Result<CutState, PathFault>
    ensures { IfOk result (IsMadeOf nodes.now cut.now) }
{
    let claims = forms_of(nodes, cut, alloc)?;
    let present = Vec::from_slice(alloc, &stand.present)?;
    let told = both(&present, used, alloc)?;
    let shape = copied_shape(&stand.shape, alloc)?;
    Ok(CutState {
        number: cut.point,
        shape,
        present,
        told,
        claims,
    })
}

// The cut point of claims, with each of the shapes that were found at its node. There is one at least.
fn cuts_at(
    nodes: &Nodes<'_>,
    cut: &teco_claims::Cut,
    stands: &[CutState],
    used: &[bool],
    alloc: Global,
) -> Result<Vec<CutState>, PathFault>
    ensures made { IfOk result (λ cuts. All (IsMadeOf nodes.now cut.now) cuts.items) }
    ensures some { IfOk result (λ cuts. 0 < length cuts.items) }
{
    let mut cuts = Vec::new(alloc);
    for stand in stands {
        if stand.number == cut.point {
            cuts.push(cut_of(nodes, cut, stand, used, alloc)?)?;
        }
    }
    if cuts.is_empty() {
        return Err(PathFault::Unreached(cut.point));
    }
    Ok(cuts)
}

/// The cut points of claims, each with the shapes that were found at its node.
///
/// # Errors
/// A claim that can't be read, and claims at an element that no run comes to.
pub fn cuts_of(
    nodes: &Nodes<'_>,
    claimed: &teco_claims::Claims,
    stands: &[CutState],
    used: &[bool],
    alloc: Global,
) -> Result<Vec<CutState>, PathFault>
    ensures { IfOk result (λ cuts. SayClaims nodes.now claimed.now.cuts cuts.items) }
{
    let mut cuts = Vec::new(alloc);
    for cut in &claimed.cuts {
        let mut more = cuts_at(nodes, cut, stands, used, alloc)?;
        cuts.append(&mut more)?;
    }
    Ok(cuts)
}
