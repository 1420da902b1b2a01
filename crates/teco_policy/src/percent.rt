//! Shares in hundredths.
ghost use Rattle.std.specs.Prelude.{◌≡◌, ◌*◌, ◌/◌, ◌<◌, ℕ, MatchOption};

use std::marker::Model;

// All of it.
const WHOLE: usize = 100;

/// A share of at most 100 hundredths.
#[derive(Clone, Copy)]
pub struct Percent {
    value: u8,
}

impl Model for Percent {
    ghost use Rattle.std.specs.Prelude.{◌≤◌, ℕ};

    ghost Value = { ℕ };

    ghost view = { λ p. p.value };

    ghost invariant = { λ p. p.value ≤ 100 };

    ghost inverse = { λ n. record { value = n } };
}

impl Percent {
    /// A number of hundredths; `None` where that is more than all.
    pub fn new(value: usize) -> Option<Percent>
        ensures { MatchOption result (100 < value) (λ percent. percent ≡ value) }
    {
        if value <= WHOLE {
            Some(Percent { value: value as u8 })
        } else {
            None
        }
    }

    /// How many hundredths.
    pub fn value(self) -> u8
        ensures { result ≡ self }
    {
        self.value
    }

    /// The share of a count, as a whole number that is not above it.
    #[tactic(auto, using(crate::proofs::Deciding::share_fits, crate::proofs::Deciding::share_is_less))]
    pub fn of(self, count: usize) -> usize
        ensures { result ≡ self * count / 100 }
    {
        (u128::from(self.value) * count as u128 / WHOLE as u128) as usize
    }
}
