//! What elements that move the pointer, or edit the buffer, do to what is known of the position.
ghost use Rattle.std.specs.Prelude.{◌≡◌, ◌≤◌, ◌^◌, IfSome};
ghost use Rattle.teco_verifier.specs.facts.Deletions as deletions;
ghost use Rattle.teco_verifier.specs.facts.Shifts as shifts;
ghost use Rattle.teco_verifier.specs.facts.Insertions as insertions;
ghost use Rattle.teco_facts.specs.Numbers.{IsNear, IsPlace};

use crate::Margins;
use crate::place::{distance_of, least, least_behind, least_past};
use std::marker::Model;
use teco_poly::Poly;
use teco_verifier::{RefusalReason, Value};

/// The least distances afterwards, how much ahead falls at the least, if that is known, how much
/// longer the buffer grows at the most, and whether what is saved may be no place any more.
#[derive(Drop)]
pub struct Shift {
    pub back: u64,
    pub fore: u64,
    pub fall: Option<i64>,
    pub growth: Poly,
    pub ends: bool,
}

impl Model for Shift {
    ghost use Rattle.std.specs.Prelude.{IfSome};
    ghost use Rattle.teco_facts.specs.Numbers.{IsNear};
    ghost use Rattle.teco_verifier.specs.facts.Shifts as shifts;

    ghost Value = { shifts.Shift };

    ghost view = { λ s. record {
      distances = record { back = s.back; fore = s.fore };
      fall = s.fall;
      growth = s.growth;
      ends = s.ends;
    } };

    ghost invariant = { λ s. IfSome s.fall IsNear };
}

impl Shift {
    /// The shift, which ends all that is saved.
    pub fn ending(mut self) -> Shift
        ensures { result ≡ shifts.ending self }
    {
        self.ends = true;
        self
    }

    /// The shift, by which the buffer grows by so much at the most.
    pub fn growing(mut self, growth: Poly) -> Shift
        ensures { result ≡ record self { growth = growth } }
    {
        self.growth = growth;
        self
    }

    /// A shift that is no growth.
    pub fn moving(back: u64, fore: u64, fall: Option<i64>) -> Shift
        requires { IfSome fall IsNear }
        ensures { result ≡ shifts.moving (record { back = back; fore = fore }) fall }
    {
        Shift {
            back,
            fore,
            fall,
            growth: Poly::number(0),
            ends: false,
        }
    }

    /// An insertion before the pointer of so many characters at least, and at most as many as a
    /// polynomial says.
    pub fn inserting(least: usize, growth: Poly, margins: Margins) -> Shift
        requires { least ≤ 2 ^ 63 }
        ensures { result ≡ insertions.insertion_of least growth margins }
    {
        let back = margins.back + least as u64;
        Shift::moving(back, margins.fore, Some(0)).growing(growth)
    }

    /// To a place that is known to lie in the buffer.
    pub fn to(place: Value, margins: Margins) -> Result<Shift, RefusalReason>
        requires { IsPlace place.ahead place.behind place.lo place.hi }
        ensures { result ≡ shifts.shift_to place margins }
    {
        let back = distance_of(least(place, margins)).ok_or(RefusalReason::Place)?;
        let fore = distance_of(least_behind(place, margins)).ok_or(RefusalReason::Place)?;
        Ok(Shift::moving(back, fore, least_past(place, margins)))
    }

    /// To either of two places, at the less known of which nothing may be nearer.
    pub fn nearer(&self, other: &Shift) -> Shift
        ensures { result ≡ deletions.nearer self.now other.now }
    {
        Shift::moving(
            self.back.min(other.back),
            self.fore.min(other.fore),
            greater_known(self.fall, other.fall),
        )
    }
}

// The greater of what is known.
fn greater_known(one: Option<i64>, two: Option<i64>) -> Option<i64>
    requires one_near { IfSome one IsNear }
    requires two_near { IfSome two IsNear }
    ensures value { result ≡ deletions.greater_known one two }
    ensures near { IfSome result IsNear }
{
    match (one, two) {
        (Some(one), Some(two)) => Some(one.max(two)),
        (None, two) => two,
        (one, None) => one,
    }
}
