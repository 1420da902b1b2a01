//! Iterations, conditionals and tags.
ghost use Rattle.std.specs.Prelude.{◌≡◌, ◌↔◌, ◌<◌, IfOk, IsTrue, Some, length};
ghost use Rattle.teco_verifier.specs.facts.Flows as flows;
ghost use Rattle.teco_verifier.specs.facts.Ways as ways;
ghost use Rattle.teco_facts.specs.Does.{Gives};
ghost use Rattle.teco_check.specs.Seen.{seen};
ghost use Rattle.teco_check.specs.Allowed as allowed;
ghost use Rattle.teco_facts.specs.declared.few.TheConstants.{DEPTH};

use crate::transfer::deletion::positive;
use crate::transfer::ways::both_ways;
use crate::transfer::{Numbers, needed_value};
use std::alloc::AllocError;
use std::marker::Model;
use teco_facts::{Answer, FactFault, Facts, Number, sum_of};
use teco_model::kind::Test;
use teco_poly::Poly;
use teco_verifier::RefusalReason;

/// The edges behind an element, where they are reached: on, to what stands behind it, and away, to
/// where it leads else.
#[derive(Drop)]
pub struct Edges {
    pub on: Option<Facts>,
    pub away: Option<Facts>,
}

impl Model for Edges {
    ghost use Rattle.teco_verifier.specs.facts.Flows as flows;

    ghost Value = { flows.Edges };

    ghost view = { λ e. record { on = e.on; away = e.away } };
}

impl Edges {
    /// An element that goes on.
    pub fn on(facts: Facts) -> Edges
        ensures { result ≡ flows.goes_on facts }
    {
        Edges {
            on: Some(facts),
            away: None,
        }
    }

    /// An element that goes away.
    pub fn away(facts: Facts) -> Edges
        ensures { result ≡ flows.goes_away facts }
    {
        Edges {
            on: None,
            away: Some(facts),
        }
    }
}

// Whether two numbers are the same.
fn is(one: i64, two: i64) -> bool
    ensures { IsTrue result ↔ (one ≡ two) }
{
    one == two
}

// The most that a value is, told by how often each distance counts.
fn bound_by(
    ahead: i64,
    behind: i64,
    k: u64,
    most: u64,
    facts: &Facts,
) -> Result<Poly, RefusalReason>
    ensures { result ≡ flows.bound_by ahead behind k most facts.now }
{
    let more = Poly::number(k);
    if is(ahead, 1) && is(behind, 1) {
        sum_of(&facts.held(), &more)
    } else if is(ahead, 0) && is(behind, 1) {
        sum_of(&facts.held(), &more)
    } else if is(ahead, 1) && is(behind, 0) {
        sum_of(&facts.ahead(), &more)
    } else if is(ahead, 1) && is(behind, 2) {
        let both = sum_of(&facts.held(), &facts.held())?;
        sum_of(&both, &more)
    } else if ahead <= 0 && behind <= 0 {
        Ok(more)
    } else {
        Ok(Poly::number(most))
    }
}

/// The most that a value is, as a polynomial.
pub fn bound_of(number: Number, facts: &Facts) -> Result<Poly, RefusalReason>
    ensures { result ≡ flows.bound_of number facts.now }
{
    let most = positive(number.range(facts.margins()).hi);
    let n = number.value;
    bound_by(n.ahead, n.behind, positive(n.hi), most, facts)
}

// The turns of an iteration with this count.
fn turns_of(count: Option<Number>, facts: &Facts) -> Result<Poly, RefusalReason>
    ensures { result ≡ flows.turns_of count facts.now }
{
    match count {
        Some(count) => bound_of(count, facts),
        None => sum_of(&facts.ahead(), &Poly::number(1)),
    }
}

/// The turns of an iteration: at most its count, or without one what is ahead and one more.
pub fn turns(facts: &Facts) -> Result<Poly, RefusalReason>
    ensures { result ≡ flows.turns facts.now }
{
    let taken = facts.level().taken()?;
    turns_of(taken.value, facts)
}

/// < enters its body where there may be a turn, and skips it where there may be none.
pub fn iterate(facts: Facts) -> Result<Edges, FactFault>
    requires falls { length facts.position.falls < DEPTH }
    requires iterations { length facts.iterations < DEPTH }
    ensures { Gives (flows.iterate facts) result }
{
    let taken = facts.level().taken()?;
    let most = turns_of(taken.value, &facts);
    let facts = facts.taking();
    facts.none_pending()?;
    let _most = most?;
    let facts = facts.without_arguments();
    match taken.value {
        None => Ok(Edges::on(facts.entering(false))),
        Some(count) => Ok(counted(count, facts)?),
    }
}

// Where turns are counted, the body is entered or skipped, as the count may be; if there is memory.
fn counted(count: Number, facts: Facts) -> Result<Edges, AllocError>
    requires falls { length facts.position.falls < DEPTH }
    requires iterations { length facts.iterations < DEPTH }
    ensures { IfOk result (λ edges. edges ≡ flows.iteration (Some count) facts) }
{
    let range = count.range(facts.margins());
    let away = if Numbers::NotPositive.may_take(range) {
        Some(facts.copied()?)
    } else {
        None
    };
    let on = if Numbers::Positive.may_take(range) {
        Some(facts.entering(true))
    } else {
        None
    };
    Ok(Edges { on, away })
}

/// The end of a turn goes back, and where turns are counted on, too.
pub fn turn_end(facts: Facts) -> Result<Edges, FactFault>
    ensures { Gives (flows.turn_end facts.iterations facts) result }
{
    let Some(innermost) = facts.innermost() else {
        return Err(FactFault::Refused(RefusalReason::Partner));
    };
    if !innermost.counted {
        return Ok(Edges::away(facts.turned()));
    }
    let on = facts.copied()?.leaving(1);
    Ok(Edges {
        on: Some(on),
        away: Some(facts.turned()),
    })
}

// Which numbers leave an iteration.
fn leaving_numbers(colons: u8) -> Numbers
    ensures { seen result ≡ flows.leaving_numbers colons }
{
    if colons == 0 {
        Numbers::NotNegative
    } else {
        Numbers::Negative
    }
}

// The number that a test asks.
fn tested(facts: &Facts) -> Result<Number, RefusalReason>
    ensures { result ≡ flows.needed_taken facts.now }
{
    let taken = facts.level().taken()?;
    needed_value(taken.value)
}

/// A conditional goes on where its test holds.
pub fn test(test: Test, answer: &Option<Answer>, facts: Facts) -> Result<Edges, FactFault>
    ensures { Gives (flows.conditional (ways.holding test) answer.now facts) result }
{
    let n = tested(&facts)?;
    let (on, away) = both_ways(Numbers::holding(test), answer, n, facts.taking())?;
    Ok(Edges { on, away })
}

// Whether no argument is pending.
fn no_value(facts: &Facts) -> Result<(), RefusalReason>
    ensures { result ≡ allowed.needs_no_value facts.now }
{
    let taken = facts.level().taken()?;
    match taken.value {
        None => Ok(()),
        Some(_) => Err(RefusalReason::Argument),
    }
}

/// O goes to its tag, and leaves as many iterations as lie between.
pub fn go_to(leaves: usize, facts: Facts) -> Result<Edges, RefusalReason>
    ensures { result ≡ flows.go_to leaves facts }
{
    no_value(&facts)?;
    Ok(Edges::away(facts.leaving(leaves)))
}

/// Semicolons leave their iteration, or go on: with a colon on a negative number.
pub fn leave(colons: u8, answer: &Option<Answer>, facts: Facts) -> Result<Edges, FactFault>
    ensures { Gives (flows.leave colons answer.now facts) result }
{
    let n = tested(&facts)?;
    let (leaving, on) = both_ways(leaving_numbers(colons), answer, n, facts.taking())?;
    let away = match leaving {
        None => None,
        Some(facts) => Some(facts.leaving(1)),
    };
    Ok(Edges { on, away })
}
