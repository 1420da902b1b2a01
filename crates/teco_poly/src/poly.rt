//! Polynomials and their arithmetic.
ghost use Rattle.std.specs.Prelude.{◌≡◌, ◌<◌, ℕ, List, nat_le, IsSome, IfSome, IfOk, None};
ghost use Rattle.std.specs.String.{string_bytes};
ghost use Rattle.teco_poly.specs.Polynomial as poly;
ghost use Rattle.teco_poly.specs.Reading.{IsPoly};
ghost use Rattle.teco_poly.specs.Text.{text as poly_text};

use crate::coefficients::{self, COEFFICIENTS, Coefficients};
use crate::text;
use std::alloc::{AllocError, Global};
use std::marker::Model;

/// A polynomial in N of degree at most 8, with whole coefficients from 0 on that 64 bits hold.
#[derive(Clone, Copy, Debug, PartialEq, Eq)]
pub struct Poly {
    coefficients: Coefficients,
}

impl Model for Poly {
    ghost use Rattle.std.specs.Prelude.{ℕ, List};

    ghost Value = { List ℕ };

    ghost view = { λ p. p.coefficients };

    ghost inverse = { λ p. record { coefficients = p } };
}

impl Poly {
    /// The number `n`.
    pub fn number(n: u64) -> Poly
        ensures { result ≡ poly.number n }
    {
        let mut coefficients = [0; COEFFICIENTS];
        coefficients[0] = n;
        Poly { coefficients }
    }

    /// N itself.
    pub fn variable() -> Poly
        ensures { result ≡ poly.variable }
    {
        let mut coefficients = [0; COEFFICIENTS];
        coefficients[1] = 1;
        Poly { coefficients }
    }

    /// The sum; `None` where a coefficient passes 64 bits.
    pub fn add(&self, other: &Poly) -> Option<Poly>
        ensures { result ≡ poly.add self.now other.now }
    {
        let coefficients = coefficients::sum(&self.coefficients, &other.coefficients)?;
        Some(Poly { coefficients })
    }

    /// The difference, coefficient by coefficient; `None` where one of `other` is greater.
    pub fn sub(&self, other: &Poly) -> Option<Poly>
        ensures { result ≡ poly.sub self.now other.now }
    {
        let coefficients = coefficients::difference(&self.coefficients, &other.coefficients)?;
        Some(Poly { coefficients })
    }

    /// The product; `None` where a coefficient passes 64 bits or the degree passes 8.
    pub fn mul(&self, other: &Poly) -> Option<Poly>
        ensures { result ≡ poly.mul self.now other.now }
    {
        let coefficients = coefficients::product(&self.coefficients, &other.coefficients)?;
        Some(Poly { coefficients })
    }

    /// The greater coefficient at each power. It is always there.
    pub fn join(&self, other: &Poly) -> Option<Poly>
        ensures value { result ≡ poly.join self.now other.now }
        ensures always { IsSome result }
    {
        let coefficients = coefficients::greater(&self.coefficients, &other.coefficients);
        Some(Poly { coefficients })
    }

    /// This polynomial with a constant lower by 1, where that is at least 1.
    pub fn one_less(&self) -> Poly
        ensures { result ≡ poly.one_less self.now }
    {
        let mut coefficients = self.coefficients;
        coefficients[0] = coefficients[0].saturating_sub(1);
        Poly { coefficients }
    }

    /// The value where N is `n`; `None` where it passes 64 bits.
    pub fn at(&self, n: u64) -> Option<u64>
        ensures { result ≡ poly.at self.now n }
    {
        coefficients::value(&self.coefficients, n)
    }

    /// The greatest `n` of 64 bits at which the value is at most `bound`, `u64::MAX` where it is at
    /// each of them; `None` where it is at none. It takes 64 values.
    pub fn greatest_within(&self, bound: u64) -> Option<u64>
        ensures greatest { IfSome result (λ n. poly.IsGreatest self.now bound n) }
        ensures none { result ≡ None → (n : ℕ) → bound < poly.value self.now n }
    {
        if !self.is_within(0, bound) {
            return None;
        }
        let mut greatest = 0u64;
        for bit in (0..u64::BITS).rev() {
            match greatest.checked_add(1 << bit) {
                Some(next) if self.is_within(next, bound) => greatest = next,
                _ => {}
            }
        }
        Some(greatest)
    }

    // Whether the value at `n` is at most `bound`.
    fn is_within(&self, n: u64, bound: u64) -> bool
        ensures { result ≡ nat_le (poly.value self.now n) bound }
    {
        match self.at(n) {
            Some(value) => value <= bound,
            None => false,
        }
    }

    /// Whether no coefficient is above that of `other`.
    pub fn le(&self, other: &Poly) -> bool
        ensures { result ≡ poly.is_at_most self.now other.now }
    {
        coefficients::is_at_most(&self.coefficients, &other.coefficients)
    }

    /// Its text: the terms by ascending powers, as in `8 + 4*N + N^2`.
    pub fn print(&self, alloc: Global) -> Result<String, AllocError>
        ensures text { IfOk result (λ t. string_bytes t ≡ poly_text self.now) }
        // so the text is read again as the same polynomial
        ensures poly { IsPoly self.now }
    {
        text::print(alloc, &self.coefficients)
    }

    /// The polynomial whose text this is; `None` for any other text. Each has one text.
    pub fn read(bytes: &[u8]) -> Option<Poly>
        // What is read prints as the same bytes.
        ensures found { IfSome result (λ p. IsPoly p × (bytes.now ≡ poly_text p)) }
        // The text of each polynomial is read, and as that polynomial.
        ensures read { (p : List ℕ) → IsPoly p → bytes.now ≡ poly_text p → result ≡ Some p }
    {
        let coefficients = text::read(bytes)?;
        Some(Poly { coefficients })
    }
}
