//! How much less there is, at the least, where that is known.
ghost use Rattle.std.specs.Prelude.{◌≡◌, ◌↔◌, None, Some, pos, IfSome, IsTrue};
ghost use Rattle.teco_verifier.specs.facts.Covers as covers;
ghost use Rattle.teco_verifier.specs.facts.Joins as joins;
ghost use Rattle.teco_verifier.specs.facts.Shifts as shifts;
ghost use Rattle.teco_facts.specs.Numbers.{IsNear, IsSmallFall};

use crate::Meets;
use std::marker::Model;

const LEAST: i64 = -4_611_686_018_427_387_904;

const MOST: i64 = 4_611_686_018_427_387_904;

// No fall is so small, so this number stands for one that is not known.
const UNKNOWN: i64 = -9_223_372_036_854_775_808;

/// How much less is ahead, at the least, than was when a turn of an iteration began, if that is known.
/// An unknown fall counts as the smallest, and the number that stands for it is the smallest too: the
/// smaller of two is found without a test of what is known.
#[derive(Clone, Copy)]
pub struct Fall {
    least: i64,
}

impl Model for Fall {
    ghost use Rattle.std.specs.Prelude.{◌≡◌, ℤ, Option};
    ghost use Rattle.teco_facts.specs.Least.{known, kept};

    ghost Value = { Option ℤ };

    ghost view = { λ f. known f.least };

    ghost inverse = { λ fall. record { least = kept fall } };

    ghost inverse_ok = { λ f within i. record { least = within i } };

    ghost invariant = { λ f. kept (known f.least) ≡ f.least };
}

impl Fall {
    /// A fall that is not known.
    #[inline(always)]
    pub fn unknown() -> Fall
        ensures { result ≡ None }
    {
        Fall { least: UNKNOWN }
    }

    /// Nothing has fallen.
    #[inline(always)]
    pub fn nothing() -> Fall
        ensures { result ≡ Some (pos 0) }
    {
        Fall { least: 0 }
    }

    /// How much it is, if that is known.
    #[inline(always)]
    pub fn known(self) -> Option<i64>
        ensures { result ≡ self }
    {
        if self.least > UNKNOWN {
            Some(self.least)
        } else {
            None
        }
    }

    /// The fall behind another one.
    #[inline(always)]
    pub fn after(self, by: Option<i64>) -> Fall
        requires near { IfSome by IsNear }
        requires small { IsSmallFall self }
        ensures { result ≡ shifts.fall_after by self }
    {
        match by {
            Some(by) if self.least > UNKNOWN => Fall {
                least: self.least + by,
            },
            _ => Fall::unknown(),
        }
    }

    /// Whether it is smaller, or the same; an unknown one is the smallest.
    #[inline(always)]
    pub fn is_at_most(self, other: Fall) -> bool
        ensures { result ≡ covers.covers_fall self other }
    {
        self.least <= other.least
    }

    /// Whether more may be added to it, if it is known.
    #[inline(always)]
    pub fn is_small(self) -> bool
        ensures { IsTrue result ↔ IsSmallFall self }
    {
        self.least <= UNKNOWN || LEAST <= self.least && self.least <= MOST
    }
}

// The smaller of two, of which an unknown one is the smallest.
impl Meets for Fall {
    ghost met = { joins.smaller_fall };

    #[inline(always)]
    fn met(self, other: Fall) -> Fall {
        Fall {
            least: self.least.min(other.least),
        }
    }
}
