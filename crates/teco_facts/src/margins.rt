//! Where the pointer is.
ghost use Rattle.std.specs.Prelude.{◌≡◌, min};
ghost use Rattle.teco_base.specs.declared.TheConstants.{LIMIT};
ghost use Rattle.teco_verifier.specs.facts.Facts as facts;

use std::marker::Model;
use teco_base::LIMIT;
use teco_verifier::Distances;

const MOST: u64 = LIMIT as u64;

/// The least distances of the pointer from the begin of the buffer and from its end, at most LIMIT.
#[derive(Clone, Copy)]
pub struct Margins {
    pub back: u64,
    pub fore: u64,
}

impl Model for Margins {
    ghost use Rattle.std.specs.Prelude.{◌≤◌};
    ghost use Rattle.teco_base.specs.declared.TheConstants.{LIMIT};
    ghost use Rattle.teco_verifier.specs.declared.values.Distances.{Distances};

    ghost Value = { Distances };

    ghost view = { λ m. record { back = m.back; fore = m.fore } };

    ghost inverse = { λ d. record { back = d.back; fore = d.fore } };

    ghost invariant = { λ m. (m.back ≤ LIMIT) × (m.fore ≤ LIMIT) };
}

impl Margins {
    /// Nothing is known.
    pub(crate) fn nowhere() -> Margins
        ensures { result ≡ facts.nowhere }
    {
        Margins { back: 0, fore: 0 }
    }

    /// Two distances, each at most LIMIT.
    pub fn capped(back: u64, fore: u64) -> Margins
        ensures { result ≡ record { back = min back LIMIT; fore = min fore LIMIT } }
    {
        Margins {
            back: back.min(MOST),
            fore: fore.min(MOST),
        }
    }

    /// The least distances in plain numbers.
    pub fn told(self) -> Distances
        ensures { result ≡ self }
    {
        Distances {
            back: self.back as u32,
            fore: self.fore as u32,
        }
    }
}
