//! Q, ^X and \.
ghost use Rattle.std.specs.Prelude.{◌≡◌, None};
ghost use Rattle.teco_verifier.specs.facts.Queries as queries;
ghost use Rattle.teco_facts.specs.Numbers.{AreSmall};

use teco_base::LIMIT;
use teco_facts::{Facts, Foreseen, LevelFacts, Number, Range, Shift};
use teco_model::kind::Query;
use teco_poly::Poly;
use teco_verifier::RefusalReason;

/// The code of a character, -1 where there is none.
pub fn character() -> Range
    ensures { result ≡ queries.character }
{
    Range { lo: -1, hi: 255 }
}

// What is given where nothing is taken: the number of a saved register is saved, too.
fn queried(query: &Query, colons: u8, facts: &Facts) -> Number
    ensures { result ≡ queries.query query.now colons facts.now }
{
    match *query {
        Query::Number(register) if colons == 0 => {
            Number::saved_within(facts.number_of(register), facts.is_saved(register))
        }
        Query::Number(_) => {
            let (lo, hi) = (0, LIMIT as i64);
            Number::within(Range { lo, hi })
        }
        Query::Mode | Query::Conversion => Number::within(Range::any()),
    }
}

// What is known where nothing is taken: \ goes on past the number that is read.
fn facts_at_query(query: Query, facts: Facts) -> Result<Facts, RefusalReason>
    requires { AreSmall facts.position.falls }
    ensures { result ≡ queries.facts_at_query query facts }
{
    if !matches!(query, Query::Conversion) {
        return Ok(facts);
    }
    let shift = Shift::moving(facts.margins().back, 0, Some(0));
    facts.shifted(&shift)
}

// The value that is taken, if one stands and is taken.
fn value_for(query: &Query, colons: u8, level: LevelFacts) -> Option<Number>
    ensures { result ≡ queries.value_for query.now colons level }
{
    let gives = matches!(query, Query::Number(_)) && colons != 0;
    if gives { None } else { level.standing() }
}

// A query gives a value.
fn facts_given(query: Query, colons: u8, facts: Facts) -> Result<Facts, RefusalReason>
    requires { AreSmall facts.position.falls }
    ensures { result ≡ queries.facts_after_query query colons None facts }
{
    let given = queried(&query, colons, &facts);
    let known = facts_at_query(query, facts)?;
    let level = known.level().given(given, known.margins())?;
    Ok(known.with_level(level))
}

// What is done with the value that stands.
fn query_with(query: Query, facts: Facts) -> Result<Foreseen, RefusalReason>
    requires { AreSmall facts.position.falls }
    ensures { result ≡ queries.query_with query facts }
{
    match query {
        Query::Number(_) => Ok(Foreseen::giving(character(), facts)),
        Query::Mode => Ok(Foreseen::silent(facts)),
        Query::Conversion => {
            let shift = Shift::inserting(1, Poly::number(11), facts.margins());
            Foreseen::behind(&shift, facts)
        }
    }
}

/// A query gives a value, or takes one.
pub fn facts_after_query(query: Query, colons: u8, facts: Facts) -> Result<Facts, RefusalReason>
    requires { AreSmall facts.position.falls }
    ensures { result ≡ queries.facts_after_query query colons (queries.value_for query colons
        facts.arguments.level) facts }
{
    match value_for(&query, colons, facts.level()) {
        None => facts_given(query, colons, facts),
        Some(_) => {
            let known = query_with(query, facts.taking())?;
            Ok(known.answered())
        }
    }
}
