//! Numbers that bounds are made of.
use crate::bounds::NONE;

// The sum of two bounds, where there are both.
pub fn plus(one: i64, other: i64) -> i64 {
    if one == NONE || other == NONE {
        NONE
    } else {
        one.saturating_add(other)
    }
}

// The whole part of a quotient, toward the lesser number; the divisor is above 0.
pub fn floor(number: i64, divisor: i64) -> i64 {
    let whole = number.checked_div(divisor).unwrap_or(0);
    let rest = number.checked_rem(divisor).unwrap_or(0);
    if rest < 0 {
        whole.saturating_sub(1)
    } else {
        whole
    }
}

// The least whole number that is no less than a quotient; the divisor is above 0.
pub fn ceiling(number: i64, divisor: i64) -> i64 {
    let whole = number.checked_div(divisor).unwrap_or(0);
    let rest = number.checked_rem(divisor).unwrap_or(0);
    if rest > 0 {
        whole.saturating_add(1)
    } else {
        whole
    }
}

// The greatest common divisor; 0 of two zeros.
pub fn common(one: u128, other: u128) -> u128 {
    let (mut first, mut second) = (one, other);
    for _ in 0..200 {
        if second == 0 {
            return first;
        }
        (first, second) = (second, first.checked_rem(second).unwrap_or(0));
    }
    1
}
