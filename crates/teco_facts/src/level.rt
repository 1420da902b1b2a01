//! What is known of what is pending at one depth of parentheses.
ghost use Rattle.std.specs.Prelude.{◌≡◌};
ghost use Rattle.teco_model.specs.Arguments as model;
ghost use Rattle.teco_verifier.specs.facts.Arguments as rules;
ghost use Rattle.teco_verifier.specs.facts.Joins as joins;

use crate::{Margins, Number};
use std::marker::Model;
use teco_base::arithmetic;
use teco_model::Operator;
use teco_verifier::{RefusalReason, Value};

/// A level of arguments.
#[derive(Clone, Copy)]
pub struct LevelFacts {
    pub(crate) first: Option<Number>,
    pub(crate) value: Option<Number>,
    pub(crate) operator: Option<Operator>,
}

impl Model for LevelFacts {
    ghost use Rattle.teco_verifier.specs.facts.Arguments.{KnownLevel};

    ghost Value = { KnownLevel };

    ghost view = { λ l. record { first = l.first; value = l.value; operator = l.operator } };

    ghost inverse = { λ l. record { first = l.first; value = l.value; operator = l.operator } };
}

/// What a command takes.
#[derive(Clone, Copy)]
pub struct TakenFacts {
    pub first: Option<Number>,
    pub value: Option<Number>,
}

impl Model for TakenFacts {
    ghost use Rattle.teco_verifier.specs.facts.Arguments.{KnownTaken};

    ghost Value = { KnownTaken };

    ghost view = { λ t. record { first = t.first; value = t.value } };

    ghost inverse = { λ t. record { first = t.first; value = t.value } };
}

/// The number that a run of digits is: decimal, modulo 2^32.
pub fn run_value(digits: &[u8]) -> i32
    ensures { result ≡ model.run_value digits.now }
{
    let mut value = 0;
    for digit in digits {
        value = arithmetic::add(
            arithmetic::mul(value, 10),
            i32::from(digit.saturating_sub(b'0')),
        );
    }
    value
}

// The value at the end of a level, where a lone sign stands for one.
fn finished(
    value: Option<Number>,
    operator: Option<Operator>,
) -> Result<Option<Number>, RefusalReason>
    ensures { result ≡ rules.value_at_end value operator }
{
    match (value, operator) {
        (value, None) => Ok(value),
        (None, Some(Operator::Minus)) => Ok(Some(Number::single(-1))),
        (None, Some(Operator::Plus)) => Ok(Some(Number::single(1))),
        (_, Some(_)) => Err(RefusalReason::Argument),
    }
}

impl LevelFacts {
    /// Nothing is pending.
    pub(crate) fn empty() -> LevelFacts
        ensures { result ≡ rules.empty_level }
    {
        LevelFacts {
            first: None,
            value: None,
            operator: None,
        }
    }

    /// A value alone is pending.
    pub fn of(value: Number) -> LevelFacts
        ensures { result ≡ record rules.empty_level { value = Some value } }
    {
        LevelFacts {
            first: None,
            value: Some(value),
            operator: None,
        }
    }

    /// The first value, the value, and the operator.
    pub fn parts(self) -> (Option<Number>, Option<Number>, Option<Operator>)
        ensures { result ≡ (self.first, self.value, self.operator) }
    {
        (self.first, self.value, self.operator)
    }

    /// The value in front of a comma.
    pub fn first_told(self) -> Option<Value>
        ensures { result ≡ self.first }
    {
        Some(self.first?.value)
    }

    /// The value that stands.
    pub fn value_told(self) -> Option<Value>
        ensures { result ≡ self.value }
    {
        Some(self.value?.value)
    }

    /// The operator that waits for a value.
    pub fn operator(self) -> Option<Operator>
        ensures { result ≡ self.operator }
    {
        self.operator
    }

    /// The level with a value given to it, to which a pending operator is applied.
    pub fn given(mut self, value: Number, margins: Margins) -> Result<LevelFacts, RefusalReason>
        ensures { result ≡ rules.level_with margins value self }
    {
        let standing = self.value.unwrap_or(Number::single(0));
        let given = match self.operator {
            None => value,
            Some(Operator::Plus) => standing.sum(value, margins),
            Some(Operator::Minus) => standing.difference(value, margins),
            Some(Operator::Times) => standing.product(value, margins),
            Some(Operator::Over) => standing.quotient(value, margins)?,
            Some(Operator::And) => standing.and(value, margins),
            Some(Operator::Or) => standing.or(value, margins),
        };
        self.value = Some(given);
        self.operator = None;
        Ok(self)
    }

    /// The level with an operator that waits for a value.
    pub fn operating(mut self, operator: Operator) -> Result<LevelFacts, RefusalReason>
        ensures { result ≡ rules.level_with_operator operator self }
    {
        if self.operator.is_some() {
            return Err(RefusalReason::Argument);
        }
        self.operator = Some(operator);
        Ok(self)
    }

    /// The level behind a comma; what cannot be negative may stand in front of it.
    pub fn parted(self, margins: Margins) -> Result<LevelFacts, RefusalReason>
        ensures { result ≡ rules.level_after_comma margins self }
    {
        if self.first.is_some() {
            return Err(RefusalReason::Argument);
        }
        let Some(first) = finished(self.value, self.operator)? else {
            return Err(RefusalReason::Argument);
        };
        if !first.range(margins).is_natural() {
            return Err(RefusalReason::Argument);
        }
        Ok(LevelFacts {
            first: Some(first),
            value: None,
            operator: None,
        })
    }

    /// The value of a level in parentheses.
    pub(crate) fn inner(self) -> Result<Number, RefusalReason>
        ensures { result ≡ rules.inner_value self }
    {
        if self.first.is_some() {
            return Err(RefusalReason::Argument);
        }
        finished(self.value, self.operator)?.ok_or(RefusalReason::Argument)
    }

    /// What a command takes.
    pub fn taken(self) -> Result<TakenFacts, RefusalReason>
        ensures { result ≡ rules.arguments_of self }
    {
        let (first, value) = (self.first, finished(self.value, self.operator)?);
        if first.is_some() && value.is_none() {
            return Err(RefusalReason::Argument);
        }
        Ok(TakenFacts { first, value })
    }

    /// The value that stands, with no operator behind it.
    pub fn standing(self) -> Option<Number>
        ensures { result ≡ rules.standing_value self }
    {
        match self.operator {
            None => self.value,
            Some(_) => None,
        }
    }

    /// The level where Z or the pointer may change: linear values become intervals, and where all
    /// that is saved is ended, saved values too.
    pub(crate) fn settled(self, margins: Margins, ends: bool) -> LevelFacts
        ensures { result ≡ rules.settled_level margins ends self }
    {
        LevelFacts {
            first: settled(self.first, margins, ends),
            value: settled(self.value, margins, ends),
            operator: self.operator,
        }
    }

    /// Whether nothing is pending.
    pub fn is_empty(self) -> bool
        ensures { result ≡ joins.is_empty_level self }
    {
        self.first.is_none() && self.value.is_none() && self.operator.is_none()
    }
}

// The value as an interval.
fn settled(value: Option<Number>, margins: Margins, ends: bool) -> Option<Number>
    ensures { result ≡ rules.settled_value margins ends value }
{
    let value = value?;
    let saved = if ends { false } else { value.value.saved };
    Some(Number::saved_within(value.range(margins), saved))
}
