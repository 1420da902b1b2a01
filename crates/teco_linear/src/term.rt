// Terms of forms, and what they are multiplied by.
ghost use Rattle.std.specs.Prelude.{◌≡◌, ◌≤◌, ◌↔◌, ℕ, ℤ, pos, ◌^◌, ◌+ℤ◌, ◌*ℤ◌, IfOk, IsTrue, FitsSigned};
ghost use Rattle.std.specs.Int.{w128};
ghost use Rattle.std.specs.Bool.{OnTrue};
ghost use Rattle.teco_linear.specs.Form.{Valuation, scale_value, term_value, IsHarmless};

use crate::fault::LinearFault;

/// The highest power of N that a form may have.
pub const MAX_POWER: u32 = 64;

/// What forms are multiplied by: a whole number times a power of N.
#[derive(Clone, Copy)]
pub struct Scale {
    pub factor: i128,
    pub power: u32,
}

/// A whole number times a power of N times a symbol.
#[derive(Clone, Copy, PartialEq, Eq)]
pub struct Term {
    /// The symbol, by its number; `None` where there is no symbol, but only the power of N.
    pub symbol: Option<u32>,
    pub power: u32,
    pub coefficient: i128,
}

impl Term {
    /// The term times `scale`; refused where the coefficient passes 128 bits, or the power
    /// `MAX_POWER`.
    pub fn scaled(&self, scale: &Scale) -> Result<Term, LinearFault>
        ensures value { IfOk result (λ term. (n : ℕ) (v : Valuation)
            → term_value term n v ≡ scale_value scale.now n *ℤ term_value self.now n v) }
        ensures power { IfOk result (λ term. term.power ≤ MAX_POWER) }
        ensures overflow { (result ≡ Err LinearFault.Overflow)
            ↔ (¬ FitsSigned w128 (self.now.coefficient *ℤ scale.now.factor)) }
    {
        let Some(coefficient) = self.coefficient.checked_mul(scale.factor) else {
            return Err(LinearFault::Overflow);
        };
        let power = match self.power.checked_add(scale.power) {
            Some(power) if power <= MAX_POWER => power,
            _ => return Err(LinearFault::PowerTooHigh),
        };
        Ok(Term {
            symbol: self.symbol,
            power,
            coefficient,
        })
    }

    // What the term's symbol is multiplied by.
    pub(crate) fn scale(&self) -> Scale
        ensures { (n : ℕ) → scale_value result n ≡ self.now.coefficient *ℤ pos (n ^ self.now.power) }
    {
        Scale {
            factor: self.coefficient,
            power: self.power,
        }
    }

    // The sum with a term of the same symbol and power.
    pub(crate) fn plus(&self, other: &Term) -> Result<Term, LinearFault>
        requires symbol { self.now.symbol ≡ other.now.symbol }
        requires power { self.now.power ≡ other.now.power }
        ensures { IfOk result (λ term. (n : ℕ) (v : Valuation)
            → term_value term n v ≡ term_value self.now n v +ℤ term_value other.now n v) }
    {
        match self.coefficient.checked_add(other.coefficient) {
            Some(coefficient) => Ok(Term {
                symbol: self.symbol,
                power: self.power,
                coefficient,
            }),
            None => Err(LinearFault::Overflow),
        }
    }

    // Whether a term has the same symbol and power.
    pub(crate) fn is_like(&self, other: &Term) -> bool
        ensures symbol { OnTrue result (self.now.symbol ≡ other.now.symbol) }
        ensures power { OnTrue result (self.now.power ≡ other.now.power) }
    {
        self.symbol == other.symbol && self.power == other.power
    }

    // Whether it stands before a term that has another symbol or power.
    pub(crate) fn precedes(&self, other: &Term) -> bool {
        self.symbol < other.symbol || self.symbol == other.symbol && self.power < other.power
    }

    // Whether it is never below 0: it has no symbol and a coefficient from 0 on, or is 0.
    pub(crate) fn is_harmless(&self) -> bool
        ensures { IsTrue result ↔ IsHarmless self.now }
    {
        match self.symbol {
            None => self.coefficient >= 0,
            Some(_) => self.coefficient == 0,
        }
    }
}
