//! Arithmetic on 32-bit numbers in two's complement: a result is the whole-number result, wrapped.
ghost use Rattle.std.specs.Prelude.{◌≡◌};
ghost use Rattle.teco_base.specs.Arithmetic as number;

/// The sum, wrapped.
#[tactic(auto, using(std::proofs::lemmas::Int::wraps))]
pub fn add(x: i32, y: i32) -> i32
    ensures { result ≡ number.add x y }
{
    x.wrapping_add(y)
}

/// The difference, wrapped.
#[tactic(auto, using(std::proofs::lemmas::Int::wraps))]
pub fn sub(x: i32, y: i32) -> i32
    ensures { result ≡ number.sub x y }
{
    x.wrapping_sub(y)
}

/// The product, wrapped.
#[tactic(auto, using(std::proofs::lemmas::Int::wraps))]
pub fn mul(x: i32, y: i32) -> i32
    ensures { result ≡ number.mul x y }
{
    x.wrapping_mul(y)
}

/// The bits that both have.
pub fn and(x: i32, y: i32) -> i32
    ensures { result ≡ number.and x y }
{
    x & y
}

/// The bits that either has.
pub fn or(x: i32, y: i32) -> i32
    ensures { result ≡ number.or x y }
{
    x | y
}

/// The quotient, truncated towards zero and then wrapped; `None` for a divisor of zero.
#[tactic(auto, using(crate::proofs::Quotient::div_code))]
pub fn div(x: i32, y: i32) -> Option<i32>
    ensures { result ≡ number.div x y }
{
    if y == 0 {
        None
    } else {
        Some(x.wrapping_div(y))
    }
}

/// The number as a byte, modulo 256.
pub fn byte_of(n: i32) -> u8
    ensures { result ≡ number.byte_of n }
{
    n.rem_euclid(256) as u8
}
