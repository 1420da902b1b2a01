//! Ranges of 32-bit numbers.
ghost use Rattle.std.specs.Prelude.{◌≡◌, ◌≤ℤ◌, int_le, int_lt, pos, IsTrue};
ghost use Rattle.teco_verifier.specs.facts.Joins as joins;
ghost use Rattle.teco_verifier.specs.facts.Values as values;
ghost use Rattle.teco_facts.specs.Numbers.{IsRange};

use crate::Meets;
use std::marker::Model;
use teco_verifier::Interval;

const LEAST: i64 = -2_147_483_648;

const MOST: i64 = 2_147_483_647;

/// The numbers from one of 32 bits to another.
#[derive(Clone, Copy)]
pub struct Range {
    pub lo: i64,
    pub hi: i64,
}

impl Model for Range {
    ghost use Rattle.teco_verifier.specs.declared.values.Interval.{Interval};
    ghost use Rattle.teco_facts.specs.Numbers.{IsRange};

    ghost Value = { Interval };

    ghost view = { λ r. record { lo = r.lo; hi = r.hi } };

    ghost inverse = { λ i. record { lo = i.lo; hi = i.hi } };

    ghost invariant = { λ r. IsRange r.lo r.hi };
}

impl Range {
    /// A single number.
    pub(crate) fn single(k: i32) -> Range
        ensures { result ≡ record { lo = k; hi = k } }
    {
        let k = i64::from(k);
        Range { lo: k, hi: k }
    }

    /// All 32-bit numbers.
    pub fn any() -> Range
        ensures { result ≡ values.any_number }
    {
        Range {
            lo: LEAST,
            hi: MOST,
        }
    }

    /// The numbers between two, or any number where these leave 32 bits.
    pub fn kept(lo: i64, hi: i64) -> Range
        requires { lo ≤ℤ hi }
        ensures { result ≡ values.kept_in_32_bits (record { lo = lo; hi = hi }) }
    {
        if LEAST <= lo && hi <= MOST {
            Range { lo, hi }
        } else {
            Range::any()
        }
    }

    /// Whether two ranges are the same.
    pub fn is(self, other: Range) -> bool
        ensures { IsTrue result → self ≡ other }
    {
        self.lo == other.lo && self.hi == other.hi
    }

    /// Whether there is one number alone.
    pub(crate) fn is_single(self) -> bool
        ensures { result ≡ values.is_single self }
    {
        self.hi <= self.lo
    }

    /// Whether all numbers are above 0.
    pub(crate) fn is_positive(self) -> bool
        ensures value { result ≡ int_lt (pos 0) self.lo }
        ensures range { IsRange self.lo self.hi }
    {
        self.lo > 0
    }

    /// Whether no number is below 0.
    pub(crate) fn is_natural(self) -> bool
        ensures { result ≡ int_le (pos 0) self.lo }
    {
        0 <= self.lo
    }

    /// Whether all numbers are below 0.
    pub(crate) fn is_negative(self) -> bool
        ensures value { result ≡ int_lt self.hi (pos 0) }
        ensures range { IsRange self.lo self.hi }
    {
        self.hi < 0
    }

    /// The range in plain numbers.
    pub fn told(self) -> Interval
        ensures { result ≡ self }
    {
        Interval {
            lo: self.lo,
            hi: self.hi,
        }
    }
}

// The hull of two ranges.
impl Meets for Range {
    ghost met = { joins.hull };

    fn met(self, other: Range) -> Range {
        Range {
            lo: self.lo.min(other.lo),
            hi: self.hi.max(other.hi),
        }
    }
}
