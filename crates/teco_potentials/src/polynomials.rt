//! Polynomials in N: coefficients of whole numbers, the lowest power first.
use teco_bounds::workspace::{Stop, Workspace};

// The highest power.
const MOST_POWER: usize = 16;

// The coefficient of a power.
fn coefficient(polynomial: &[u128], power: usize) -> u128 {
    polynomial.get(power).copied().unwrap_or(0)
}

// The sum of two polynomials.
pub fn plus(one: &[u128], other: &[u128], space: &mut Workspace) -> Vec<u128> {
    let mut sum = Vec::new(space.alloc);
    for power in 0..one.len().max(other.len()) {
        match coefficient(one, power).checked_add(coefficient(other, power)) {
            Some(both) => space.push(&mut sum, both),
            None => space.stop(Stop::TooMuch),
        }
    }
    sum
}

// The least polynomial that is no less than two by each coefficient.
pub fn most(one: &[u128], other: &[u128], space: &mut Workspace) -> Vec<u128> {
    let mut all = Vec::new(space.alloc);
    for power in 0..one.len().max(other.len()) {
        space.push(
            &mut all,
            coefficient(one, power).max(coefficient(other, power)),
        );
    }
    all
}

// Adds a number to the coefficient of a power, which may not be above the highest.
fn add_at(sum: &mut Vec<u128>, power: usize, number: u128, space: &mut Workspace) {
    if power > MOST_POWER {
        space.stop(Stop::TooMuch);
        return;
    }
    for _ in sum.len()..power.saturating_add(1) {
        space.push(sum, 0);
    }
    let both = coefficient(sum, power).checked_add(number);
    match (sum.get_mut(power), both) {
        (Some(coefficient), Some(both)) => *coefficient = both,
        _ => space.stop(Stop::TooMuch),
    }
}

// The product of two polynomials.
pub fn times(one: &[u128], other: &[u128], space: &mut Workspace) -> Vec<u128> {
    let mut product = Vec::new(space.alloc);
    for (power, left) in one.iter().enumerate() {
        for (more, right) in other.iter().enumerate() {
            match left.checked_mul(*right) {
                Some(0) => {}
                Some(both) => add_at(&mut product, power.saturating_add(more), both, space),
                None => space.stop(Stop::TooMuch),
            }
        }
    }
    product
}

// A polynomial of numerators.
pub fn whole(numerators: &[i128], space: &mut Workspace) -> Vec<u128> {
    let mut all = Vec::new(space.alloc);
    for numerator in numerators {
        space.push(&mut all, u128::try_from(*numerator).unwrap_or(0));
    }
    all
}
