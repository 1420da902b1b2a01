//! What is known of numbers that are pending.
ghost use Rattle.std.specs.Prelude.{◌≡◌, pos, if◌then◌else◌};
ghost use Rattle.teco_base.specs.Arithmetic as bits;
ghost use Rattle.teco_verifier.specs.facts.Arguments as rules;
ghost use Rattle.teco_verifier.specs.facts.Values as values;
ghost use Rattle.teco_facts.specs.Numbers.{IsPlace};

use crate::arithmetic::range_of;
use crate::place::is_linear;
use crate::{Margins, Range, minus, plus};
use std::marker::Model;
use teco_model::ArgumentRange;
use teco_verifier::{RefusalReason, Value};

/// A number that is pending: so often each distance of the pointer, and something of a range; where
/// it is saved, it is a place of the buffer.
#[derive(Clone, Copy)]
pub struct Number {
    pub value: Value,
}

impl Model for Number {
    ghost use Rattle.teco_verifier.specs.declared.values.Value.{Value as Told};
    ghost use Rattle.teco_facts.specs.Numbers.{IsNumber};

    ghost Value = { Told };

    ghost view = { λ n. n.value };

    ghost inverse = { λ s. record { value = s } };

    ghost invariant = { λ n. IsNumber n.value.ahead n.value.behind n.value.lo n.value.hi };
}

impl Number {
    /// A single number.
    pub fn single(k: i32) -> Number
        ensures { result ≡ values.single k }
    {
        Number::within(Range::single(k))
    }

    /// A number of a range.
    pub fn within(range: Range) -> Number
        ensures { result ≡ values.value_in range }
    {
        Number::saved_within(range, false)
    }

    /// An argument of a range that is declared.
    pub(crate) fn declared(range: ArgumentRange) -> Number
        ensures { result ≡ values.value_in (record { lo = pos range.low; hi = pos range.high }) }
    {
        let (lo, hi) = (i64::from(range.low()), i64::from(range.high()));
        Number::within(Range { lo, hi })
    }

    /// A number of a range, which may be a place of the buffer.
    pub fn saved_within(range: Range, saved: bool) -> Number
        ensures { result ≡ record (values.value_in range) { saved = saved } }
    {
        Number {
            value: Value {
                ahead: 0,
                behind: 0,
                lo: range.lo,
                hi: range.hi,
                saved,
            },
        }
    }

    /// Z.
    pub fn size() -> Number
        ensures { result ≡ values.size }
    {
        Number {
            value: Value {
                ahead: 1,
                behind: 1,
                lo: 0,
                hi: 0,
                saved: false,
            },
        }
    }

    /// The pointer.
    pub fn pointer() -> Number
        ensures { result ≡ values.pointer }
    {
        Number {
            value: Value {
                ahead: 0,
                behind: 1,
                lo: 0,
                hi: 0,
                saved: false,
            },
        }
    }

    /// The range of the number, where the pointer has these distances.
    pub fn range(self, margins: Margins) -> Range
        ensures { result ≡ values.interval_of margins self }
    {
        range_of(margins, self.value)
    }

    /// What else there is than the distances.
    pub(crate) fn ends(self) -> Range
        ensures { result ≡ record { lo = self.lo; hi = self.hi } }
    {
        Range {
            lo: self.value.lo,
            hi: self.value.hi,
        }
    }

    /// The number as a place.
    #[tactic(auto, using(crate::proofs::Places::number_is_place))]
    pub fn place(self) -> Value
        ensures value { result ≡ self }
        ensures place { IsPlace result.ahead result.behind result.lo result.hi }
    {
        self.value
    }

    // The number that a place is, where that is linear, and else one of a range.
    fn linear_or(range: Range, exact: Value) -> Number
        requires { IsPlace exact.ahead exact.behind exact.lo exact.hi }
        ensures { result ≡ (if values.is_linear exact then exact else values.value_in range) }
    {
        if is_linear(exact) {
            Number { value: exact }
        } else {
            Number::within(range)
        }
    }

    /// The sum.
    pub fn sum(self, other: Number, margins: Margins) -> Number
        ensures { result ≡ values.sum margins self other }
    {
        let range = self.range(margins).sum(other.range(margins));
        Number::linear_or(range, plus(self, other))
    }

    /// The difference.
    pub(crate) fn difference(self, other: Number, margins: Margins) -> Number
        ensures { result ≡ values.difference margins self other }
    {
        let range = self.range(margins).difference(other.range(margins));
        Number::linear_or(range, minus(self, other))
    }

    /// The product.
    pub(crate) fn product(self, other: Number, margins: Margins) -> Number
        ensures { result ≡ values.product margins self other }
    {
        Number::within(self.range(margins).product(other.range(margins)))
    }

    /// The quotient, where the divisor cannot be 0.
    pub(crate) fn quotient(self, other: Number, margins: Margins) -> Result<Number, RefusalReason>
        ensures { result ≡ rules.quotient_of margins self other }
    {
        let divisor = other.range(margins);
        if divisor.is_positive() || divisor.is_negative() {
            let range = self.range(margins).quotient(divisor);
            Ok(Number::within(range))
        } else {
            Err(RefusalReason::Divisor)
        }
    }

    /// The bits that both have, where each is a single number.
    pub fn and(self, other: Number, margins: Margins) -> Number
        ensures { result ≡ values.bitwise bits.and (values.interval_of margins self)
            (values.interval_of margins other) }
    {
        Number::within(self.range(margins).and(other.range(margins)))
    }

    /// The bits that either has, where each is a single number.
    pub(crate) fn or(self, other: Number, margins: Margins) -> Number
        ensures { result ≡ values.bitwise bits.or (values.interval_of margins self)
            (values.interval_of margins other) }
    {
        Number::within(self.range(margins).or(other.range(margins)))
    }
}
