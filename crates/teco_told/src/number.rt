//! The number that digits are.
ghost use Rattle.std.specs.Prelude.{◌≡◌};
ghost use Rattle.teco_model.specs.Arguments as model;

use teco_base::arithmetic;

/// The number that a run of digits is: decimal, modulo 2^32.
pub(crate) fn run_value(digits: &[u8]) -> i32
    ensures { result ≡ model.run_value digits.now }
{
    let mut value = 0;
    for digit in digits {
        value = arithmetic::add(
            arithmetic::mul(value, 10),
            i32::from(digit.saturating_sub(b'0')),
        );
    }
    value
}
