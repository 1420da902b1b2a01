//! What distances count in numbers, and ranges of results.
ghost use Rattle.std.specs.Prelude.{◌≡◌, FitsSigned, int_div, ◌+ℤ◌, ◌-ℤ◌, int_le, pos, negsuc, ◌*ℤ◌, ◌≤ℤ◌, ◌<◌, ◌≤◌};
ghost use Rattle.std.specs.Prelude.{◌^◌, ◌-◌};
ghost use Rattle.std.specs.Int.{int_min, int_max, w32, w64};
ghost use Rattle.teco_base.specs.declared.TheConstants.{LIMIT};
ghost use Rattle.teco_base.specs.Arithmetic as bits;
ghost use Rattle.teco_verifier.specs.facts.Values as values;
ghost use Rattle.teco_facts.specs.Numbers.{IsNear, IsSmall, IsNumber, IsShare};

use crate::{Margins, Range};
use teco_base::{LIMIT, arithmetic};
use teco_verifier::Value;

const MOST: u64 = LIMIT as u64;

/// The sum of two numbers.
pub fn add(one: i64, two: i64) -> i64
    requires { FitsSigned w64 (one +ℤ two) }
    ensures { result ≡ one +ℤ two }
{
    one + two
}

/// The difference of two numbers.
pub fn sub(one: i64, two: i64) -> i64
    requires { FitsSigned w64 (one -ℤ two) }
    ensures { result ≡ one -ℤ two }
{
    one - two
}

// The product of two numbers.
fn mul(one: i64, two: i64) -> i64
    requires { FitsSigned w64 (one *ℤ two) }
    ensures { result ≡ one *ℤ two }
{
    one * two
}

/// Whether a number is at most another.
pub fn at_most(one: i64, two: i64) -> bool
    ensures { result ≡ int_le one two }
{
    one <= two
}

/// The product of a distance and how often it counts.
pub fn share(distance: u64, times: i64) -> i64
    requires small { IsSmall times }
    requires within { distance ≤ LIMIT }
    ensures value { result ≡ pos distance *ℤ times }
    ensures low { negsuc (2 ^ 34) ≤ℤ result }
    ensures high { result ≤ℤ pos (2 ^ 34) }
{
    distance as i64 * times
}

// How much a distance of at least `least` counts at the least.
fn least_share(least: u64, times: i64) -> i64
    requires small { IsSmall times }
    requires within { least ≤ LIMIT }
    ensures value { result ≡ values.least_share least times }
    ensures share { IsShare result times }
{
    share(if times < 0 { MOST } else { least }, times)
}

// How much a distance of at least `least` counts at the most.
fn most_share(least: u64, times: i64) -> i64
    requires small { IsSmall times }
    requires within { least ≤ LIMIT }
    ensures value { result ≡ values.most_share least times }
    ensures ordered { values.least_share least times ≤ℤ result }
    ensures share { IsShare result times }
{
    share(if times < 0 { least } else { MOST }, times)
}

// The sum of what the distances count, and a number.
fn total(ahead: i64, behind: i64, k: i64) -> i64
    requires ahead { IsNear ahead }
    requires behind { IsNear behind }
    requires k { IsNear k }
    ensures { result ≡ ahead +ℤ behind +ℤ k }
{
    ahead + behind + k
}

/// The range of a number.
pub fn range_of(margins: Margins, n: Value) -> Range
    requires { IsNumber n.ahead n.behind n.lo n.hi }
    ensures { result ≡ values.interval_of margins n }
{
    let least_ahead = least_share(margins.fore, n.ahead);
    let least_behind = least_share(margins.back, n.behind);
    let most_ahead = most_share(margins.fore, n.ahead);
    let most_behind = most_share(margins.back, n.behind);
    Range {
        lo: total(least_ahead, least_behind, n.lo),
        hi: total(most_ahead, most_behind, n.hi),
    }
}

// The range from the least to the greatest of four numbers.
fn hull(a: i64, b: i64, c: i64, d: i64) -> Range
    ensures { result ≡ values.kept_in_32_bits (record {
      lo = int_min (int_min a b) (int_min c d);
      hi = int_max (int_max a b) (int_max c d);
    }) }
{
    let lo = a.min(b).min(c.min(d));
    let hi = a.max(b).max(c.max(d));
    Range::kept(lo, hi)
}

// The product of two numbers of 32 bits.
fn product(x: i64, y: i64) -> i64
    requires fits { FitsSigned w32 x }
    requires other_fits { FitsSigned w32 y }
    ensures { result ≡ x *ℤ y }
{
    mul(x, y)
}

// The quotient of numbers of 32 bits, truncated towards 0.
fn quotient(x: i64, y: i64) -> i64
    requires fits { FitsSigned w32 x }
    requires nonzero { y ≡ pos 0 → ⊥ }
    ensures { result ≡ int_div x y }
{
    x / y
}

impl Range {
    /// The range of a sum.
    pub fn sum(self, other: Range) -> Range
        ensures { result ≡ values.kept_in_32_bits (values.interval_sum self other) }
    {
        Range::kept(add(self.lo, other.lo), add(self.hi, other.hi))
    }

    /// The range of a difference.
    pub(crate) fn difference(self, other: Range) -> Range
        ensures { result ≡ values.kept_in_32_bits (values.interval_difference self other) }
    {
        Range::kept(sub(self.lo, other.hi), sub(self.hi, other.lo))
    }

    /// The range of a product, between its corners.
    #[tactic(auto, using(crate::proofs::Wholes::wholes))]
    pub(crate) fn product(self, other: Range) -> Range
        ensures { result ≡ values.kept_in_32_bits (values.interval_product self other) }
    {
        hull(
            product(self.lo, other.lo),
            product(self.lo, other.hi),
            product(self.hi, other.lo),
            product(self.hi, other.hi),
        )
    }

    /// The range of a quotient, between its corners.
    #[tactic(auto, using(crate::proofs::Wholes::wholes))]
    pub(crate) fn quotient(self, other: Range) -> Range
        requires lo_nonzero { other.lo ≡ pos 0 → ⊥ }
        requires hi_nonzero { other.hi ≡ pos 0 → ⊥ }
        ensures { result ≡ values.kept_in_32_bits (values.interval_quotient self other) }
    {
        hull(
            quotient(self.lo, other.lo),
            quotient(self.lo, other.hi),
            quotient(self.hi, other.lo),
            quotient(self.hi, other.hi),
        )
    }

    // The least number.
    fn least(self) -> i32
        ensures { result ≡ self.lo }
    {
        self.lo as i32
    }

    /// The bits that both have, where each is a single number.
    #[tactic(auto, using(crate::proofs::Wholes::wholes))]
    pub(crate) fn and(self, other: Range) -> Range
        ensures { values.value_in result ≡ values.bitwise bits.and self other }
    {
        if self.is_single() && other.is_single() {
            Range::single(arithmetic::and(self.least(), other.least()))
        } else {
            Range::any()
        }
    }

    /// The bits that either has, where each is a single number.
    #[tactic(auto, using(crate::proofs::Wholes::wholes))]
    pub(crate) fn or(self, other: Range) -> Range
        ensures { values.value_in result ≡ values.bitwise bits.or self other }
    {
        if self.is_single() && other.is_single() {
            Range::single(arithmetic::or(self.least(), other.least()))
        } else {
            Range::any()
        }
    }
}
