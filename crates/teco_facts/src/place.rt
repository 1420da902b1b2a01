//! Sums and differences of numbers, without a limit, which may be places in the buffer.
ghost use Rattle.std.specs.Prelude.{◌≡◌, IfSome, negsuc, pos, ◌≤ℤ◌, ◌^◌};
ghost use Rattle.teco_verifier.specs.facts.Values as values;
ghost use Rattle.teco_facts.specs.Numbers.{IsPlace, IsNear, IsSmall};

use crate::arithmetic::{add, at_most, share, sub};
use crate::{Margins, Number};
use teco_base::LIMIT;
use teco_verifier::Value;

const LEAST: i64 = -536_870_912;

const MOST: i64 = 536_870_912;

/// The sum.
pub fn plus(s: Number, t: Number) -> Value
    ensures value { result ≡ values.plus s t }
    ensures place { IsPlace result.ahead result.behind result.lo result.hi }
{
    Value {
        ahead: add(s.value.ahead, t.value.ahead),
        behind: add(s.value.behind, t.value.behind),
        lo: add(s.value.lo, t.value.lo),
        hi: add(s.value.hi, t.value.hi),
        saved: false,
    }
}

// The difference of places.
fn apart(s: Value, t: Value) -> Value
    requires one { IsPlace s.ahead s.behind s.lo s.hi }
    requires two { IsPlace t.ahead t.behind t.lo t.hi }
    ensures { result ≡ values.minus s t }
{
    Value {
        ahead: sub(s.ahead, t.ahead),
        behind: sub(s.behind, t.behind),
        lo: sub(s.lo, t.hi),
        hi: sub(s.hi, t.lo),
        saved: false,
    }
}

/// The difference.
#[tactic(auto, using(crate::proofs::Places::number_is_place))]
pub fn minus(s: Number, t: Number) -> Value
    ensures value { result ≡ values.minus s t }
    ensures place { IsPlace result.ahead result.behind result.lo result.hi }
{
    apart(s.value, t.value)
}

// Whether it is -1, 0 or 1.
fn is_sign(times: i64) -> bool
    ensures { result ≡ values.is_sign times }
{
    -1 <= times && times <= 1
}

/// Whether a number is linear, and may so be kept.
pub fn is_linear(n: Value) -> bool
    requires { IsPlace n.ahead n.behind n.lo n.hi }
    ensures { result ≡ values.is_linear n }
{
    is_sign(n.ahead)
        && is_sign(sub(n.behind, n.ahead))
        && at_most(n.hi, n.lo)
        && at_most(LEAST, n.lo)
        && at_most(n.hi, MOST)
}

/// The least that a number can be.
pub fn least(n: Value, margins: Margins) -> Option<i64>
    requires ahead_small { IsSmall n.ahead }
    requires behind_small { IsSmall n.behind }
    requires low { negsuc (2 ^ 35) ≤ℤ n.lo }
    requires high { n.lo ≤ℤ pos (2 ^ 35) }
    ensures value { result ≡ values.least n margins }
    ensures near { IfSome result IsNear }
{
    if n.ahead < 0 || n.behind < 0 {
        return None;
    }
    let shares = add(share(margins.fore, n.ahead), share(margins.back, n.behind));
    Some(add(shares, n.lo))
}

/// The least distance of a place from the end.
pub fn least_behind(place: Value, margins: Margins) -> Option<i64>
    requires { IsPlace place.ahead place.behind place.lo place.hi }
    ensures { result ≡ values.least (values.minus values.size place) margins }
{
    least(apart(Number::size().place(), place), margins)
}

/// How far behind the pointer a place is at the least.
pub fn least_past(place: Value, margins: Margins) -> Option<i64>
    requires { IsPlace place.ahead place.behind place.lo place.hi }
    ensures value { result ≡ values.least (values.minus place values.pointer) margins }
    ensures near { IfSome result IsNear }
{
    least(apart(place, Number::pointer().place()), margins)
}

/// A distance that is known not to be negative, at most LIMIT.
pub fn distance_of(least: Option<i64>) -> Option<u64>
    ensures { result ≡ values.distance_of least }
{
    let least = least?;
    if least < 0 {
        return None;
    }
    Some((least as u64).min(LIMIT as u64))
}
