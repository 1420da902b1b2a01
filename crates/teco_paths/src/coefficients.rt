//! The coefficients of polynomials.
ghost use Rattle.std.specs.Prelude.{◌≡◌, ◌+◌, ◌*◌, ℕ, IfOk};
ghost use Rattle.teco_poly.specs.Polynomial as poly;

use crate::fault::PathFault;
use std::alloc::Global;
use teco_poly::Poly;

// How many coefficients a polynomial has at most.
const COEFFICIENTS: usize = 9;

// The greatest number that, times a power of N, a polynomial is no less than.
fn greatest(polynomial: &Poly, power: &Poly) -> u64 {
    let mut found = 0u64;
    for bit in (0..u64::BITS).rev() {
        let more = found | (1 << bit);
        match Poly::number(more).mul(power) {
            Some(multiple) if multiple.le(polynomial) => found = more,
            _ => {}
        }
    }
    found
}

// What is left of a polynomial behind a number times a power of N.
fn less(polynomial: &Poly, number: u64, power: &Poly) -> Result<Poly, PathFault>
    ensures { IfOk result (λ left. (n : ℕ)
        → poly.value polynomial.now n ≡ number * poly.value power.now n + poly.value left n) }
{
    teco_poly::laws::values_of_constants();
    teco_poly::laws::value_of_product();
    teco_poly::laws::value_of_difference();
    let Some(multiple) = Poly::number(number).mul(power) else {
        return Err(PathFault::Unknown);
    };
    match polynomial.sub(&multiple) {
        Some(left) => Ok(left),
        None => Err(PathFault::Unknown),
    }
}

// The next power of N.
fn next(power: &Poly) -> Result<Poly, PathFault>
    ensures { IfOk result (λ more. (n : ℕ) → poly.value more n ≡ poly.value power.now n * n) }
{
    teco_poly::laws::values_of_constants();
    teco_poly::laws::value_of_product();
    match power.mul(&Poly::variable()) {
        Some(more) => Ok(more),
        None => Err(PathFault::Unknown),
    }
}

/// The coefficients of a polynomial, that of the constant first.
pub fn coefficients(polynomial: &Poly, alloc: Global) -> Result<Vec<u64>, PathFault>
    ensures { IfOk result (λ found. (n : ℕ)
        → poly.value found.items n ≡ poly.value polynomial.now n) }
{
    teco_poly::laws::values_of_constants();
    teco_poly::laws::values_compare();
    let mut found = Vec::new(alloc);
    let mut left = *polynomial;
    let mut power = Poly::number(1);
    for _ in 0..COEFFICIENTS {
        let number = greatest(&left, &power);
        left = less(&left, number, &power)?;
        found.push(number)?;
        if left.le(&Poly::number(0)) {
            return Ok(found);
        }
        power = next(&power)?;
    }
    Err(PathFault::Unknown)
}
