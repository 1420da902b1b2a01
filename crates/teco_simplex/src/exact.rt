//! Whole numbers of 128 bits, with a fault where a result leaves them.
ghost use Rattle.std.specs.Prelude.{◌≡◌, ◌+ℤ◌, ◌-ℤ◌, ◌*ℤ◌, IfOk};

use crate::fault::SimplexFault;

pub fn product(left: i128, right: i128) -> Result<i128, SimplexFault>
    ensures { IfOk result (λ product. product ≡ left *ℤ right) }
{
    match (i64::try_from(left), i64::try_from(right)) {
        (Ok(left), Ok(right)) => Ok(i128::from(left).wrapping_mul(i128::from(right))),
        _ => left.checked_mul(right).ok_or(SimplexFault::TooLarge),
    }
}

pub fn sum(left: i128, right: i128) -> Result<i128, SimplexFault>
    ensures { IfOk result (λ sum. sum ≡ left +ℤ right) }
{
    left.checked_add(right).ok_or(SimplexFault::TooLarge)
}

pub fn difference(left: i128, right: i128) -> Result<i128, SimplexFault>
    ensures { IfOk result (λ difference. difference ≡ left -ℤ right) }
{
    left.checked_sub(right).ok_or(SimplexFault::TooLarge)
}

// The whole part; a fault also where the divisor is 0.
pub fn quotient(left: i128, right: i128) -> Result<i128, SimplexFault> {
    match (i64::try_from(left), i64::try_from(right)) {
        (Ok(left), Ok(right)) if right > 0 => Ok(i128::from(left.checked_div(right).unwrap_or(0))),
        _ => left.checked_div(right).ok_or(SimplexFault::TooLarge),
    }
}

// The greatest number that divides both, by Euclid; 0 for two zeros.
pub fn common_divisor(left: i128, right: i128) -> Result<i128, SimplexFault> {
    let mut divisor = left.unsigned_abs();
    let mut rest = right.unsigned_abs();
    if let (Ok(one), Ok(other)) = (u64::try_from(divisor), u64::try_from(rest)) {
        return Ok(i128::from(narrow_divisor(one, other)));
    }
    while rest != 0 {
        let remainder = divisor % rest;
        divisor = rest;
        rest = remainder;
    }
    i128::try_from(divisor).or(Err(SimplexFault::TooLarge))
}

// The greatest number that divides both, where they fit 64 bits: that takes less time.
fn narrow_divisor(left: u64, right: u64) -> u64 {
    let mut divisor = left;
    let mut rest = right;
    while rest != 0 {
        let remainder = divisor % rest;
        divisor = rest;
        rest = remainder;
    }
    divisor
}
